//! A large script, the same each time.
ghost use Rattle.std.specs.Prelude.{◌≡◌, ℕ, ◌+◌, ◌≤◌, ◌<◌, ◌^◌, [], ◌∷◌, length, map, IfOk, OnOk};
ghost use Rattle.std.specs.List.{enumerate_from, range_with_len};
ghost use Rattle.ring_names.specs.Body.{IsBody};
ghost use Rattle.ring_script.specs.Reading.{IsPlayable};
ghost use Rattle.ring_script.specs.Load.{openers, name_at, caster, leader, cast_body, first_body, second_body};
ghost use Rattle.ring_script.specs.Load.{asked_in, settled_at, turn, turned_at, block_of, load_commands};
ghost use Rattle.ring_script.specs.Load.{IsLoadable, IsLoad, with_commands};

use crate::command::Command;
use crate::script::Script;
use crate::text::Text;
use ring_names::{Body, BodyFault, CreditSpec, Items, Name, OutOfMemory, Position};
use std::alloc::Global;

/// A script to measure by: a large input, the same each time for a number of blocks and a seed. In each block a
/// member casts, and the master publishes two messages, hands one out and has one acknowledged. Half of the blocks
/// are under the first master, which is then killed, and half under the next.
pub fn load_script(alloc: Global, blocks: u32, seed: u32) -> Result<Script, OutOfMemory>
    requires { IsLoadable blocks seed }
    ensures load { IfOk result (IsLoad blocks seed) }
    ensures playable { IfOk result IsPlayable }
{
    make_script(alloc, blocks, seed)
}

/// The same, of which it is not yet told that it can be played.
#[tactic(auto, using(crate::proofs::LoadParts::openers_few))]
fn make_script(alloc: Global, blocks: u32, seed: u32) -> Result<Script, OutOfMemory>
    requires { IsLoadable blocks seed }
    ensures { IfOk result (IsLoad blocks seed) }
{
    let members = first_members(alloc, opening_count(seed))?;
    let Some(credit) = CreditSpec::new(8, 4) else {
        unreachable!()
    };
    let lines = all_lines(alloc, blocks, seed)?;
    Ok(Text {
        members: Items::from_vec(members),
        credit,
        lines: Items::from_vec(lines),
    })
}

/// With how many members the ring opens: 3 to 8.
fn opening_count(seed: u32) -> u32
    ensures { result ≡ openers seed }
{
    3 + seed % 6
}

/// The names of so many members.
#[tactic(auto, using(crate::proofs::LoadParts::names_more))]
fn first_members(alloc: Global, count: u32) -> Result<Vec<Name>, OutOfMemory>
    requires { count ≤ 8 }
    ensures { IfOk result (λ names. names.items ≡ map name_at (range_with_len 0 count)) }
{
    let mut names = Vec::new(alloc);
    for place in 0..count {
        names.push(member_at(place))?;
    }
    Ok(names)
}

/// The name of the member at a place.
#[tactic(auto, using(crate::proofs::LoadParts::place_reads))]
fn member_at(place: u32) -> Name
    requires { place < 10 }
    ensures { result ≡ name_at place }
{
    match Name::read(&[b'm', b'0' + place as u8]) {
        Ok(name) => name,
        Err(_) => unreachable!(),
    }
}

/// The member that casts in a block.
#[tactic(auto, using(crate::proofs::LoadParts::caster_place, crate::proofs::LoadParts::openers_few))]
fn caster_in(seed: u32, block: u32) -> Name
    requires { block + seed < 2 ^ 32 }
    ensures { result ≡ caster seed block }
{
    member_at(1 + (block + seed) % (opening_count(seed) - 1))
}

/// The master of a block.
fn leader_in(blocks: u32, block: u32) -> Name
    ensures { result ≡ leader blocks block }
{
    if block <= blocks / 2 {
        member_at(0)
    } else {
        member_at(1)
    }
}

/// What is cast in a block.
#[tactic(auto, using(crate::proofs::LoadParts::cast_fits))]
fn body_cast(alloc: Global, block: u32) -> Result<Body, OutOfMemory>
    ensures { IfOk result (λ body. body ≡ cast_body block) }
{
    let text = format!(in alloc; "c{block}")?;
    body_of(alloc, &text)
}

/// What is published first.
#[tactic(auto, using(crate::proofs::LoadParts::first_fits))]
fn body_first(alloc: Global, block: u32) -> Result<Body, OutOfMemory>
    ensures { IfOk result (λ body. body ≡ first_body block) }
{
    let text = format!(in alloc; "p{block}a")?;
    body_of(alloc, &text)
}

/// And second.
#[tactic(auto, using(crate::proofs::LoadParts::second_fits))]
fn body_second(alloc: Global, block: u32) -> Result<Body, OutOfMemory>
    ensures { IfOk result (λ body. body ≡ second_body block) }
{
    let text = format!(in alloc; "p{block}b")?;
    body_of(alloc, &text)
}

/// The body that this text is.
fn body_of(alloc: Global, text: &str) -> Result<Body, OutOfMemory>
    requires { IsBody text.now }
    ensures { IfOk result (λ body. body ≡ text.now) }
{
    match Body::read(alloc, text.as_bytes()) {
        Ok(body) => Ok(body),
        Err(BodyFault::TooLong) => unreachable!(),
        Err(BodyFault::BadByte { .. }) => unreachable!(),
        Err(BodyFault::OutOfMemory) => Err(OutOfMemory),
    }
}

/// The commands of all blocks.
#[tactic(auto, using(crate::proofs::LoadLines::lines_more))]
fn all_lines(alloc: Global, blocks: u32, seed: u32) -> Result<Vec<(u32, Command)>, OutOfMemory>
    requires { IsLoadable blocks seed }
    ensures { IfOk result (λ lines. lines.items ≡ enumerate_from 2 (load_commands blocks seed)) }
{
    let mut lines = Vec::new(alloc);
    for before in 0..blocks {
        push_block(alloc, &mut lines, blocks, seed, before + 1)?;
    }
    Ok(lines)
}

/// The commands of a block more.
fn push_block(
    alloc: Global,
    lines: &mut Vec<(u32, Command)>,
    blocks: u32,
    seed: u32,
    block: u32,
) -> Result<(), OutOfMemory>
    requires room { length lines.old.items ≤ 40000 }
    requires block { block + seed < 2 ^ 32 }
    ensures block { OnOk result (lines.new.items ≡ with_commands lines.old.items (block_of blocks seed block)) }
    ensures length { OnOk result (length lines.new.items ≤ length lines.old.items + 10) }
{
    push_asked(alloc, lines, blocks, seed, block)?;
    push_settled(lines, block)?;
    push_turned(lines, blocks, block)
}

/// What is asked in it.
#[tactic(auto, using(crate::proofs::LoadLines::with_five))]
fn push_asked(
    alloc: Global,
    lines: &mut Vec<(u32, Command)>,
    blocks: u32,
    seed: u32,
    block: u32,
) -> Result<(), OutOfMemory>
    requires room { length lines.old.items ≤ 40000 }
    requires block { block + seed < 2 ^ 32 }
    ensures asked { OnOk result (lines.new.items ≡ with_commands lines.old.items (asked_in blocks seed block)) }
    ensures length { OnOk result (length lines.new.items ≡ length lines.old.items + 5) }
{
    let by = caster_in(seed, block);
    let body = body_cast(alloc, block)?;
    push_command(lines, Command::Cast { by, body })?;
    let by = leader_in(blocks, block);
    let body = body_first(alloc, block)?;
    push_command(lines, Command::Publish { by, body })?;
    let body = body_second(alloc, block)?;
    push_command(lines, Command::Publish { by, body })?;
    push_command(lines, Command::Get { by })?;
    let at = Position(u64::from(block));
    push_command(lines, Command::Ack { by, at })
}

/// That the ring settles, behind each 50th block.
fn push_settled(lines: &mut Vec<(u32, Command)>, block: u32) -> Result<(), OutOfMemory>
    requires room { length lines.old.items ≤ 50000 }
    ensures settled { OnOk result (lines.new.items ≡ with_commands lines.old.items (settled_at block)) }
    ensures length { OnOk result (length lines.new.items ≤ length lines.old.items + 1) }
{
    if block % 50 == 0 {
        push_command(lines, Command::Settle)?;
    }
    Ok(())
}

/// The end of the first master, behind the first half.
fn push_turned(lines: &mut Vec<(u32, Command)>, blocks: u32, block: u32) -> Result<(), OutOfMemory>
    requires room { length lines.old.items ≤ 60000 }
    ensures turned { OnOk result (lines.new.items ≡ with_commands lines.old.items (turned_at blocks block)) }
    ensures length { OnOk result (length lines.new.items ≤ length lines.old.items + 4) }
{
    if block == blocks / 2 {
        push_turn(lines)?;
    }
    Ok(())
}

/// The first master hands out a message more, and is killed.
fn push_turn(lines: &mut Vec<(u32, Command)>) -> Result<(), OutOfMemory>
    requires room { length lines.old.items ≤ 60000 }
    ensures turn { OnOk result (lines.new.items ≡ with_commands lines.old.items turn) }
    ensures length { OnOk result (length lines.new.items ≡ length lines.old.items + 4) }
{
    let by = member_at(0);
    push_command(lines, Command::Get { by })?;
    push_command(lines, Command::Settle)?;
    push_command(lines, Command::Kill { by })?;
    push_command(lines, Command::Settle)
}

/// A command more, behind the number of its line.
fn push_command(lines: &mut Vec<(u32, Command)>, command: Command) -> Result<(), OutOfMemory>
    requires room { length lines.old.items ≤ 100000 }
    ensures command { OnOk result (lines.new.items ≡ with_commands lines.old.items (command ∷ [])) }
    ensures length { OnOk result (length lines.new.items ≡ length lines.old.items + 1) }
{
    let number = 2 + lines.len() as u32;
    lines.push((number, command))?;
    Ok(())
}
