//! The summary of a ring: what its members have published together, and what its master's mirror holds.
ghost use Rattle.std.specs.Prelude.{◌≡◌, ℕ, ◌≤◌, ◌++◌, length, map, count_by, true, false, IfOk, OnOk};
ghost use Rattle.std.specs.List.{sum_by};
ghost use Rattle.queue_core.specs.Shown.{item_of};
ghost use Rattle.group_view.specs.Change.{most_entries};
ghost use Rattle.ring_rules.specs.Machine.{member_at};
ghost use Rattle.ring_report.specs.Report.{newest_view, counts_lines};
ghost use Rattle.ring_report.specs.Summary.{summary_of, summary_text, master_items, items_at, together, number_of};
ghost use Rattle.ring_report.specs.Summary.{members_line, master_line, depth_line, count_handed, is_up as up_is, is_handed as handed_is};

use crate::items::held_in;
use crate::members::push_count;
use crate::view::master_of;
use group_view::View;
use queue_core::{CopyState, Held};
use ring_names::{MemberId, OutOfMemory};
use ring_rules::{Counts, MemberState};
use ring_world::World;
use std::alloc::Global;

/// A number that members have.
#[derive(Clone, Copy, PartialEq, Eq, Debug)]
pub(crate) enum Counted {
    Casts,
    CastsConfirmed,
    Publishes,
    PublishesConfirmed,
}

/// The summary of a ring's state, behind a script of so many blocks, in six lines: the blocks; how many members it has ever had,
/// and how many are up; how many casts and publishes there are of all together, and how many of them are confirmed; the
/// newest view with its master and term; and how many items the master's mirror has ready and handed out.
pub fn summary(alloc: Global, world: &World, blocks: u32) -> Result<Vec<u8>, OutOfMemory>
    ensures { IfOk result (λ text. text.items ≡ summary_of blocks (world.now).ring) }
{
    let mut states = Vec::new(alloc);
    let mut counts = Vec::new(alloc);
    for place in 0..world.members() {
        let name = world.name_of(MemberId(place + 1));
        states.push(world.state(name))?;
        counts.push(world.counts(name))?;
    }
    let held = held_by_master(alloc, world)?;
    let mut text = Vec::new(alloc);
    push_summary(
        alloc,
        &mut text,
        blocks,
        &states,
        &counts,
        world.view(),
        &held,
    )?;
    Ok(text)
}

/// The items of the master's mirror.
fn held_by_master<'a>(alloc: Global, world: &'a World) -> Result<Vec<Held<'a>>, OutOfMemory>
    ensures { IfOk result (λ all. map item_of all.items
        ≡ master_items (world.now).ring (newest_view (world.now).ring).master) }
{
    match world.view().master {
        Some(id) => held_by(alloc, world, id),
        None => Ok(Vec::new(alloc)),
    }
}

/// The items of the mirror of the member of an id, where the ring has it.
fn held_by<'a>(alloc: Global, world: &'a World, id: MemberId) -> Result<Vec<Held<'a>>, OutOfMemory>
    ensures { IfOk result (λ all. map item_of all.items ≡ items_at (world.now).ring id.0) }
{
    if id.0 == 0 || id.0 > world.members() {
        return Ok(Vec::new(alloc));
    }
    held_in(alloc, world.mirror(world.name_of(id)).queue())
}

/// What a summary says, where the members stand so and have published so much, with this view, and these items in the master's
/// mirror.
pub fn push_summary(
    alloc: Global,
    out: &mut Vec<u8>,
    blocks: u32,
    states: &[MemberState],
    counts: &[Counts],
    view: &View,
    held: &[Held<'_>],
) -> Result<(), OutOfMemory>
    requires few { length counts.now ≤ most_entries }
    ensures { OnOk result (out.new.items ≡ out.old.items
        ++ summary_text blocks states.now counts.now view.now (map item_of held.now)) }
{
    let line = format!(in alloc; "blocks {blocks}\n")?;
    out.extend_from_slice(line.as_bytes())?;
    push_members(alloc, out, states)?;
    push_totals(alloc, out, counts)?;
    push_master(alloc, out, view)?;
    push_depth(alloc, out, held)?;
    Ok(())
}

fn is_up(state: &MemberState) -> bool
    ensures { result ≡ up_is state.now }
{
    matches!(state, MemberState::Up { .. })
}

/// How many members there are, and how many of them are up.
fn push_members(alloc: Global, out: &mut Vec<u8>, states: &[MemberState]) -> Result<(), OutOfMemory>
    ensures { OnOk result (out.new.items ≡ out.old.items ++ members_line states.now) }
{
    let up = states.iter().filter(|state| is_up(state)).count();
    let line = format!(in alloc; "members {} up {up}\n", states.len())?;
    out.extend_from_slice(line.as_bytes())?;
    Ok(())
}

/// What members have published together.
fn push_totals(alloc: Global, out: &mut Vec<u8>, counts: &[Counts]) -> Result<(), OutOfMemory>
    requires { length counts.now ≤ most_entries }
    ensures { OnOk result (out.new.items ≡ out.old.items ++ counts_lines (together counts.now)) }
{
    let casts = total(counts, Counted::Casts);
    let casts_confirmed = total(counts, Counted::CastsConfirmed);
    let publishes = total(counts, Counted::Publishes);
    let publishes_confirmed = total(counts, Counted::PublishesConfirmed);
    push_count(alloc, out, "casts", casts, casts_confirmed)?;
    push_count(alloc, out, "publishes", publishes, publishes_confirmed)?;
    Ok(())
}

/// A number of all members together.
fn total(counts: &[Counts], counted: Counted) -> u128
    requires { length counts.now ≤ most_entries }
    ensures { result ≡ sum_by (number_of counted) counts.now }
{
    let mut sum = 0;
    for of_one in counts {
        sum += number(of_one, counted) as u128;
    }
    sum
}

/// A number of one member.
fn number(counts: &Counts, counted: Counted) -> u64
    ensures { result ≡ number_of counted counts.now }
{
    match counted {
        Counted::Casts => counts.casts,
        Counted::CastsConfirmed => counts.casts_confirmed,
        Counted::Publishes => counts.publishes,
        Counted::PublishesConfirmed => counts.publishes_confirmed,
    }
}

/// The master, its term and the version of its view.
fn push_master(alloc: Global, out: &mut Vec<u8>, view: &View) -> Result<(), OutOfMemory>
    ensures { OnOk result (out.new.items ≡ out.old.items ++ master_line view.now) }
{
    let further = format!(in alloc; " term {} view {}\n", view.term, view.version)?;
    out.extend_from_slice(b"master ")?;
    out.extend_from_slice(master_of(view))?;
    out.extend_from_slice(further.as_bytes())?;
    Ok(())
}

fn is_handed(held: &Held<'_>) -> bool
    ensures { result ≡ handed_is (held.now).state }
{
    matches!(held.state, CopyState::Unacked)
}

/// How many of these are handed out.
fn handed_among(held: &[Held<'_>]) -> usize
    ensures { result ≡ count_handed true (map item_of held.now) }
{
    held.iter().filter(|one| is_handed(one)).count()
}

/// How many aren't.
fn ready_among(held: &[Held<'_>]) -> usize
    ensures { result ≡ count_handed false (map item_of held.now) }
{
    held.iter().filter(|one| !is_handed(one)).count()
}

/// How many items are ready, and how many handed out.
fn push_depth(alloc: Global, out: &mut Vec<u8>, held: &[Held<'_>]) -> Result<(), OutOfMemory>
    ensures { OnOk result (out.new.items ≡ out.old.items ++ depth_line (map item_of held.now)) }
{
    let ready = ready_among(held);
    let unacked = handed_among(held);
    let line = format!(in alloc; "ready {ready} unacked {unacked}\n")?;
    out.extend_from_slice(line.as_bytes())?;
    Ok(())
}
