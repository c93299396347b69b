//! The items of a mirror.
ghost use Rattle.std.specs.Prelude.{◌≡◌, ◌++◌, map, IfOk, OnOk};
ghost use Rattle.std.specs.List.{flat_map};
ghost use Rattle.queue_core.specs.Shown.{item_of};
ghost use Rattle.ring_report.specs.Report.{item_line, item_lines, told_line, while_up};

use itoa::Buffer;
use queue_core::{CopyState, Held, Queue};
use queue_mirror::Mirror;
use ring_names::{Body, OutOfMemory, Position};
use ring_rules::MemberState;
use std::alloc::Global;

/// What the report says of the mirror of a member that is up: the ready items by their positions, and then those that
/// are handed out. Of one that waits or has stopped it says nothing.
pub fn push_items(
    alloc: Global,
    out: &mut Vec<u8>,
    stands: MemberState,
    mirror: &Mirror,
) -> Result<(), OutOfMemory>
    ensures { OnOk result (out.new.items ≡ out.old.items
        ++ while_up stands (item_lines (mirror.now).mirror.queue.items)) }
{
    match stands {
        MemberState::Up { .. } => push_queue(alloc, out, mirror.queue()),
        MemberState::Waiting | MemberState::Stopped => Ok(()),
    }
}

/// The items of a queue.
fn push_queue(alloc: Global, out: &mut Vec<u8>, queue: &Queue) -> Result<(), OutOfMemory>
    ensures { OnOk result (out.new.items ≡ out.old.items ++ item_lines (queue.now).queue.items) }
{
    let all = held_in(alloc, queue)?;
    push_told(out, &all, false)?;
    push_told(out, &all, true)?;
    Ok(())
}

/// The items of a queue, by their positions.
pub fn held_in<'a>(alloc: Global, queue: &'a Queue) -> Result<Vec<Held<'a>>, OutOfMemory>
    ensures { IfOk result (λ all. map item_of all.items ≡ (queue.now).queue.items) }
{
    let _next = queue.next();
    let mut all = Vec::with_capacity(alloc, queue.depth() as usize)?;
    let mut from = 0;
    for _place in 0..queue.depth() {
        let Some(held) = queue.item_from(Position(from)) else {
            unreachable!()
        };
        from = held.at.0 + 1;
        all.push(held)?;
    }
    Ok(all)
}

/// Those that are handed out, or the others.
fn push_told(out: &mut Vec<u8>, all: &[Held<'_>], handed: bool) -> Result<(), OutOfMemory>
    ensures { OnOk result (out.new.items ≡ out.old.items ++ flat_map (told_line handed) (map item_of all.now)) }
{
    for held in all {
        push_item(out, held, handed)?;
    }
    Ok(())
}

/// An item among those that are handed out, or among the others.
fn push_item(out: &mut Vec<u8>, held: &Held<'_>, handed: bool) -> Result<(), OutOfMemory>
    ensures { OnOk result (out.new.items ≡ out.old.items ++ told_line handed (item_of held.now)) }
{
    let word = match (handed, held.state) {
        (false, CopyState::Ready) => "ready",
        (false, CopyState::Again) => "again",
        (true, CopyState::Unacked) => "unacked",
        _ => return Ok(()),
    };
    push_line(out, word, held.at, held.body)
}

fn push_line(out: &mut Vec<u8>, word: &str, at: Position, body: &Body) -> Result<(), OutOfMemory>
    ensures { OnOk result (out.new.items ≡ out.old.items ++ item_line word.now at.0 body.now) }
{
    let mut digits = Buffer::new();
    out.extend_from_slice(word.as_bytes())?;
    out.push(b' ')?;
    out.extend_from_slice(digits.format(at.0).as_bytes())?;
    out.push(b' ')?;
    out.extend_from_slice(body.bytes())?;
    out.push(b'\n')?;
    Ok(())
}
