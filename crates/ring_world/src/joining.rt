//! A member admits one of a new name.
ghost use Rattle.std.specs.Prelude.{◌≡◌, ◌<◌, ◌+◌, ◌∷◌, suc, length, map, slice_index_or, None};
ghost use Rattle.std.specs.Prelude.{IfOk, OnOk, OnErr};
ghost use Rattle.std.specs.List.{range_with_len};
ghost use Rattle.group_view.specs.Change.{admitted, admit_refusal as group_refusal, most_entries};
ghost use Rattle.ring_rules.specs.declared.phase.Phase.TheVariants as phase;
ghost use Rattle.ring_rules.specs.Machine.{member_at, no_member, newest as the_newest};
ghost use Rattle.ring_rules.specs.Rows.{born_row};
ghost use Rattle.ring_rules.specs.Step.{joiner as the_joiner, come_to};
ghost use Rattle.ring_rules.specs.Event.{admit_refusal, refreshed};
ghost use Rattle.ring_world.specs.Placed.{IsPlaced, IsReadyAt};
ghost use Rattle.ring_world.specs.Shows.{world_of, member_of, row_of};

use crate::changing::change;
use crate::neighbours::{id_at, newest, newest_view};
use crate::plain_member::{KnownOrigin, PlainMember};
use crate::state::Ring;
use group_view::View;
use queue_mirror::Mirror;
use ring_names::{MemberId, Name, OutOfMemory};
use ring_rules::Phase;
use std::alloc::Global;

/// How many messages the member of an id has published; nobody has id 0, or one beyond the ring, and none.
fn published(members: &[PlainMember], id: usize) -> u64
    ensures { result ≡ length (slice_index_or (no_member ∷ map member_of members.now) id no_member).log }
{
    if id == 0 || id > members.len() {
        return 0;
    }
    members[id - 1].log.len() as u64
}

/// Rows for all ids and for that of one that joins, which notes how much each has published.
fn born_rows(alloc: Global, members: &[PlainMember]) -> Result<Vec<KnownOrigin>, OutOfMemory>
    requires { length members.now < most_entries + 1 }
    ensures { IfOk result (λ v. map row_of v.items
        ≡ map (λ p. born_row (slice_index_or (no_member ∷ map member_of members.now) p no_member).log)
        (range_with_len 0 (length members.now + 2))) }
{
    let mut rows = Vec::new(alloc);
    for id in 0..members.len() + 2 {
        rows.push(KnownOrigin::born(alloc, published(members, id)))?;
    }
    Ok(rows)
}

/// Who joins: it waits for the first packet on the link that opens next.
fn joiner(alloc: Global, ring: &Ring, name: &Name) -> Result<PlainMember, OutOfMemory>
    requires { IsPlaced (world_of ring.now) }
    ensures { IfOk result (λ member. member_of member ≡ the_joiner (world_of ring.now) name.now) }
{
    let rows = born_rows(alloc, &ring.members)?;
    Ok(PlainMember {
        name: *name,
        phase: Phase::Waiting,
        version: newest(ring) + 1,
        log: Vec::new(alloc),
        rows,
        out: None,
        current: Some(ring.links.len()),
        mirror: Mirror::joining(alloc),
        started: false,
        told: 0,
        whole: false,
    })
}

/// The view with one more entry, directly right of the one that admits it.
fn after_admitting(view: &View, by: u32, name: &Name) -> Result<View, OutOfMemory>
    requires { group_refusal (view.now).entries by name.now ≡ None }
    ensures { IfOk result (λ next. next ≡ admitted view.now by name.now) }
{
    let mut next = view.copy()?;
    if next.admit(MemberId(by), *name).is_err() {
        return Err(OutOfMemory);
    }
    Ok(next)
}

/// The member at a place admits one of this name, and reads the view that follows, in which it sends to the one
/// that joins, as `gm:record_new_member_in_group`.
pub(crate) fn admit(
    alloc: Global,
    ring: &mut Ring,
    place: usize,
    name: &Name,
) -> Result<(), OutOfMemory>
    requires ready { IsReadyAt ring.old place }
    requires up { (member_at (world_of ring.old) (suc place)).phase ≡ phase.Up }
    requires enabled { admit_refusal (world_of ring.old) name.now ≡ None }
    ensures ok { OnOk result (world_of ring.new
        ≡ refreshed (come_to (world_of ring.old) (suc place) name.now) (suc place)
        (the_newest (world_of ring.old) + 1)) }
    ensures err { OnErr result (world_of ring.new ≡ world_of ring.old) }
{
    let joiner = joiner(alloc, ring, name)?;
    let next = after_admitting(newest_view(ring), id_at(place), name)?;
    ring.members.reserve(1)?;
    change(alloc, ring, place, next)?;
    ring.members.push_reserved(joiner);
    Ok(())
}
