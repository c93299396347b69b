//! The report of the plain machine.
ghost use Rattle.std.specs.Prelude.{◌≡◌, ◌<◌, ◌≤◌, ◌++◌, IfOk, OnOk};
ghost use Rattle.ring_rules.specs.Step.{size};
ghost use Rattle.ring_report.specs.Lent.{lent_in};
ghost use Rattle.ring_report.specs.Report.{report_of, lines_of_member, heard_from, heard_lines, while_up};

use crate::items::push_items;
use crate::members::{push_counts, push_messages, push_state};
use crate::refusals::{lent, push_refusals};
use crate::view::push_ring;
use ring_names::{MemberId, OutOfMemory};
use ring_rules::{Event, MemberState};
use ring_world::World;
use std::alloc::Global;

/// The report of a ring's state: its newest view, and of each member that it has ever had, by ids, where it stands, how
/// much it has published and how much of that is confirmed; of one that is up the casts that it has heard, origin by
/// origin, and the items of its mirror; and what it refused.
pub fn report(alloc: Global, world: &World) -> Result<Vec<u8>, OutOfMemory>
    ensures { IfOk result (λ text. text.items ≡ report_of (world.now).ring (world.now).refusals) }
{
    let all = lent(alloc, world.refusals())?;
    let refusals = all.as_slice();
    let mut text = Vec::new(alloc);
    push_ring(alloc, &mut text, world.view())?;
    for place in 0..world.members() {
        push_member(alloc, &mut text, world, refusals, MemberId(place + 1))?;
    }
    Ok(text)
}

/// The lines of the member of an id, where these were refused.
fn push_member(
    alloc: Global,
    out: &mut Vec<u8>,
    world: &World,
    refusals: &[&Event],
    id: MemberId,
) -> Result<(), OutOfMemory>
    requires some { 1 ≤ id.0 }
    requires there { id.0 < size (world.now).ring }
    ensures { OnOk result (out.new.items ≡ out.old.items
        ++ lines_of_member (world.now).ring (lent_in refusals.now) id.0) }
{
    let name = world.name_of(id);
    let stands = world.state(name);
    push_state(alloc, out, name, id, stands, world.view())?;
    push_counts(alloc, out, &world.counts(name))?;
    push_heard(out, world, id, stands)?;
    push_items(alloc, out, stands, world.mirror(name))?;
    push_refusals(alloc, out, refusals, name)?;
    Ok(())
}

/// What the member of an id has heard, where it is up.
fn push_heard(
    out: &mut Vec<u8>,
    world: &World,
    id: MemberId,
    stands: MemberState,
) -> Result<(), OutOfMemory>
    requires some { 1 ≤ id.0 }
    requires there { id.0 < size (world.now).ring }
    ensures { OnOk result (out.new.items ≡ out.old.items ++ while_up stands (heard_lines (world.now).ring id.0)) }
{
    match stands {
        MemberState::Up { .. } => {}
        MemberState::Waiting | MemberState::Stopped => return Ok(()),
    }
    for place in 0..world.members() {
        push_heard_of(out, world, id, MemberId(place + 1))?;
    }
    Ok(())
}

/// What it has heard of an origin.
fn push_heard_of(
    out: &mut Vec<u8>,
    world: &World,
    id: MemberId,
    origin: MemberId,
) -> Result<(), OutOfMemory>
    requires some { 1 ≤ id.0 }
    requires there { id.0 < size (world.now).ring }
    requires origin_some { 1 ≤ origin.0 }
    requires origin_there { origin.0 < size (world.now).ring }
    ensures { OnOk result (out.new.items ≡ out.old.items ++ heard_from (world.now).ring id.0 origin.0) }
{
    let name = world.name_of(origin);
    push_messages(out, name.bytes(), world.heard_by(id, origin))
}
