//! The report: the ring, and of each member what it has published, what it has received, what its mirror of the queue holds
//! and what was refused.
ghost use Rattle.std.specs.Prelude.{◌≡◌, ◌+◌, ◌<◌, ◌≤◌, ◌++◌, [], Option, IfOk, OnOk, length, take, drop, slice_index_or};
ghost use Rattle.std.specs.List.{flat_map};
ghost use Rattle.ring_rules.specs.Step.{size};
ghost use Rattle.ring_rules.specs.Machine.{member_at as at_id};
ghost use Rattle.ring_rules.specs.Event.{refusals_of};
ghost use Rattle.ring_rules.specs.Asked.{counts_of, state_of as stands_of};
ghost use Rattle.gm_member.specs.Shown.{held_of};
ghost use Rattle.ring_cluster.specs.Seen.{state_of};
ghost use Rattle.ring_cluster.specs.Holds.{HoldsOf};
ghost use Rattle.ring_cluster.specs.Published.{told_by, told_with, told_in, told_of_each};
ghost use Rattle.ring_report.specs.Report.{report_of, cast_line, heard_from, heard_lines, while_up, lines_of_member, stands_at};
ghost use Rattle.ring_report.specs.Lent.{lent_in};

use queue_mirror::Mirror;
use ring_cluster::Cluster;
use ring_names::{Body, MemberId, OutOfMemory};
use ring_parties::Node;
use ring_report::{
    push_cast, push_counts, push_items, push_refusals, push_ring, push_state, refusals_in,
};
use ring_rules::{Counts, Event, MemberState, Phase};
use std::alloc::Global;

/// The bytes of the shortest line of a message that was received, its line feed with it.
const SHORTEST_HEARD: usize = 9;

/// The bytes of the shortest line of an item beside its body's, its line feed with them.
const SHORTEST_ITEM: usize = 9;

/// The report of the state in which the cluster's members stand, and of what they refused. It takes over the memory of
/// `old`, whose bytes are gone. At first it has room for `heard` short lines, and about as much as the items take.
pub(crate) fn report(
    alloc: Global,
    old: Vec<u8>,
    cluster: &Cluster,
    heard: usize,
) -> Result<Vec<u8>, OutOfMemory>
    ensures { IfOk result (λ text. text.items
        ≡ report_of (state_of cluster.now) (refusals_of (cluster.now).events)) }
{
    let room = heard
        .saturating_mul(SHORTEST_HEARD)
        .saturating_add(items_room(cluster));
    let mut text = old;
    text.clear();
    text.reserve_exact(room)?;
    push_report(alloc, &mut text, cluster)?;
    Ok(text)
}

/// About how many bytes the lines of items take: each body is taken to be as long as those of the published messages
/// are on average.
fn items_room(cluster: &Cluster) -> usize {
    let mut items: usize = 0;
    for place in 0..cluster.members() {
        items = items.saturating_add(depth_at(cluster, MemberId(place + 1)));
    }
    let line = average_body(cluster.events()).saturating_add(SHORTEST_ITEM);
    items.saturating_mul(line)
}

/// How many items are told of the member of an id.
fn depth_at(cluster: &Cluster, id: MemberId) -> usize {
    match (cluster.member(id), cluster.mirror(id)) {
        (Some(member), Some(mirror)) => match member.phase() {
            Phase::Up => mirror.queue().depth() as usize,
            Phase::Waiting | Phase::Stopped => 0,
        },
        _ => 0,
    }
}

/// How many bytes a message to the queue has on average.
fn average_body(events: &[Event]) -> usize {
    let mut bytes: usize = 0;
    let mut count: usize = 0;
    for event in events {
        if let Event::Publish { by: _, body } = event {
            bytes = bytes.saturating_add(body.bytes().len());
            count = count.saturating_add(1);
        }
    }
    bytes.checked_div(count).unwrap_or(0)
}

/// The report of the state in which the cluster's members stand, of the opening and joined, and of what they refused.
/// The journal is read once for what was published, and once for the refusals.
pub(crate) fn push_report(
    alloc: Global,
    out: &mut Vec<u8>,
    cluster: &Cluster,
) -> Result<(), OutOfMemory>
    ensures { OnOk result (out.new.items ≡ out.old.items
        ++ report_of (state_of cluster.now) (refusals_of (cluster.now).events)) }
{
    let published = cluster.published()?;
    let all = refusals_in(alloc, cluster.events())?;
    let refusals = all.as_slice();
    push_ring(alloc, out, cluster.view())?;
    for place in 0..published.len() {
        push_member(alloc, out, cluster, &published, refusals, place)?;
    }
    Ok(())
}

/// The id of the member at a place.
fn id_at(cluster: &Cluster, place: usize) -> MemberId
    requires { place + 1 < size (state_of cluster.now) }
    ensures { result.0 ≡ place + 1 }
{
    cluster.is_going();
    MemberId(place as u32 + 1)
}

/// The member at a place, whose id is one more.
fn member_at(cluster: &Cluster, place: usize) -> &Node
    requires { place + 1 < size (state_of cluster.now) }
    ensures { HoldsOf (state_of cluster.now) (place + 1) (held_of result.now) }
{
    let Some(member) = cluster.member(id_at(cluster, place)) else {
        unreachable!()
    };
    member
}

/// Its mirror of the queue.
fn mirror_at(cluster: &Cluster, place: usize) -> &Mirror
    requires { place + 1 < size (state_of cluster.now) }
    ensures { (result.now).mirror ≡ (at_id (state_of cluster.now) (place + 1)).mirror }
{
    let Some(mirror) = cluster.mirror(id_at(cluster, place)) else {
        unreachable!()
    };
    mirror
}

/// How much it has published, and how much of that has come round to it, by its book.
pub(crate) fn counts_at(cluster: &Cluster, place: usize) -> Counts
    requires { place + 1 < size (state_of cluster.now) }
    ensures { result ≡ counts_of (place + 1) (at_id (state_of cluster.now) (place + 1)) }
{
    let Some(book) = cluster.book(id_at(cluster, place)) else {
        unreachable!()
    };
    let totals = book.totals();
    Counts {
        casts: totals.casts,
        casts_confirmed: totals.casts_confirmed,
        publishes: totals.publishes,
        publishes_confirmed: totals.publishes_confirmed,
    }
}

/// Where it stands.
pub(crate) fn state_at(cluster: &Cluster, place: usize) -> MemberState
    requires { place + 1 < size (state_of cluster.now) }
    ensures { result ≡ stands_at (state_of cluster.now) (place + 1) }
{
    let missing = mirror_at(cluster, place).missing();
    stands(missing, member_at(cluster, place).phase())
}

/// Where a member of this phase stands whose mirror lacks so many messages.
fn stands(missing: Option<u64>, phase: Phase) -> MemberState
    ensures { result ≡ stands_of missing phase }
{
    match phase {
        Phase::Waiting => MemberState::Waiting,
        Phase::Up => MemberState::Up { missing },
        Phase::Stopped => MemberState::Stopped,
    }
}

/// What the report says of the member at a place, where this is told of what each has published, and these are the
/// refusals.
fn push_member(
    alloc: Global,
    out: &mut Vec<u8>,
    cluster: &Cluster,
    published: &[Vec<Option<&Body>>],
    refusals: &[&Event],
    place: usize,
) -> Result<(), OutOfMemory>
    requires within { place + 1 < size (state_of cluster.now) }
    requires told { told_in published.now ≡ told_of_each (state_of cluster.now) }
    ensures { OnOk result (out.new.items ≡ out.old.items
        ++ lines_of_member (state_of cluster.now) (lent_in refusals.now) (place + 1)) }
{
    let id = id_at(cluster, place);
    let member = member_at(cluster, place);
    let state = state_at(cluster, place);
    push_state(alloc, out, member.name(), id, state, cluster.view())?;
    push_counts(alloc, out, &counts_at(cluster, place))?;
    push_heard(out, cluster, published, id, state)?;
    push_items(alloc, out, state, mirror_at(cluster, place))?;
    push_refusals(alloc, out, refusals, member.name())?;
    Ok(())
}

/// What the member of an id has received of each, its own messages among them, where it is up.
fn push_heard(
    out: &mut Vec<u8>,
    cluster: &Cluster,
    published: &[Vec<Option<&Body>>],
    id: MemberId,
    stands: MemberState,
) -> Result<(), OutOfMemory>
    requires member { (1 ≤ id.0) × (id.0 < size (state_of cluster.now)) }
    requires told { told_in published.now ≡ told_of_each (state_of cluster.now) }
    ensures { OnOk result (out.new.items ≡ out.old.items
        ++ while_up stands (heard_lines (state_of cluster.now) id.0)) }
{
    match stands {
        MemberState::Up { .. } => {}
        MemberState::Waiting | MemberState::Stopped => return Ok(()),
    }
    for origin in 0..published.len() {
        push_heard_of(out, cluster, published, id, origin)?;
    }
    Ok(())
}

/// What the member of an id has received of the one at a place.
fn push_heard_of(
    out: &mut Vec<u8>,
    cluster: &Cluster,
    published: &[Vec<Option<&Body>>],
    id: MemberId,
    place: usize,
) -> Result<(), OutOfMemory>
    requires member { (1 ≤ id.0) × (id.0 < size (state_of cluster.now)) }
    requires origin { place + 1 < size (state_of cluster.now) }
    requires told { told_in published.now ≡ told_of_each (state_of cluster.now) }
    ensures { OnOk result (out.new.items ≡ out.old.items
        ++ heard_from (state_of cluster.now) id.0 (place + 1)) }
{
    cluster.is_going();
    let origin = id_at(cluster, place);
    let base = cluster.base(id, origin);
    let got = cluster.got(id, origin);
    let bodies = behind(first_of(bodies_at(published, place), got), base);
    push_casts(out, member_at(cluster, place).name().bytes(), bodies)?;
    Ok(())
}

/// What is told of the messages of the member at a place.
fn bodies_at<'a, 'b>(published: &'a [Vec<Option<&'b Body>>], place: usize) -> &'a [Option<&'b Body>]
    requires { place < length published.now }
    ensures { told_with result.now ≡ slice_index_or (told_in published.now) place [] }
{
    &published[place]
}

/// The first of them, or all where there are fewer.
fn first_of<'a, 'b>(bodies: &'a [Option<&'b Body>], many: u64) -> &'a [Option<&'b Body>]
    ensures { result.now ≡ take many bodies.now }
{
    let many = many as usize;
    if bodies.len() <= many {
        return bodies;
    }
    &bodies[..many]
}

/// Those behind the first ones: none where there are fewer.
fn behind<'a, 'b>(bodies: &'a [Option<&'b Body>], many: u64) -> &'a [Option<&'b Body>]
    ensures { result.now ≡ drop many bodies.now }
{
    let many = many as usize;
    if bodies.len() <= many {
        return &[];
    }
    &bodies[many..]
}

/// The casts among messages of the origin of this name.
fn push_casts(out: &mut Vec<u8>, origin: &[u8], bodies: &[Option<&Body>]) -> Result<(), OutOfMemory>
    ensures { OnOk result (out.new.items ≡ out.old.items
        ++ flat_map (cast_line origin.now) (told_with bodies.now)) }
{
    for body in bodies {
        push_if_cast(out, origin, body)?;
    }
    Ok(())
}

/// One message of it, where that is a cast.
fn push_if_cast(out: &mut Vec<u8>, origin: &[u8], body: &Option<&Body>) -> Result<(), OutOfMemory>
    ensures { OnOk result (out.new.items ≡ out.old.items ++ cast_line origin.now (told_by body.now)) }
{
    match body {
        Some(body) => push_cast(out, origin, body),
        None => Ok(()),
    }
}
