//! A master copies its queue to a mirror: when a step of it may happen, and what it does.
ghost use Rattle.std.specs.Prelude.{◌≡◌, ◌<◌, ◌++◌, suc, true, length, map, slice_set, IfOk, OnOk, OnErr, Some, None};
ghost use Rattle.std.specs.List.{list_any};
ghost use Rattle.queue_core.specs.Queue.{no_items};
ghost use Rattle.queue_sync.specs.Copy.{item_of, copied_mirror as sync_mirror};
ghost use Rattle.queue_sync.specs.Seen.{begun};
ghost use Rattle.credit_flow.specs.Credit.{none_taken};
ghost use Rattle.queue_laws.specs.Part.{ops};
ghost use Rattle.ring_rules.specs.Refusal.{answer_of};
ghost use Rattle.ring_rules.specs.Machine.{member_at, view_in};
ghost use Rattle.ring_rules.specs.Rows.{messages_between as the_messages};
ghost use Rattle.ring_rules.specs.Step.{log_of, copied, copied_at};
ghost use Rattle.ring_names.specs.declared.reason.Reason.TheVariants as reason;
ghost use Rattle.ring_rules.specs.declared.kind.CopyStep.TheVariants as copying;
ghost use Rattle.ring_rules.specs.Event.{up_refusal};
ghost use Rattle.ring_copies.specs.Copies.{is_blocked_at as blocked_at, all_kept, copied_mirror, done_taken, since_copy};
ghost use Rattle.ring_copies.specs.Events.{has_marked as marked_before, target_refusal, is_done_next as done_is_next};
ghost use Rattle.ring_copies.specs.Events.{copy_take_refusal, step_refusal, step_done, open_copy, take_copy};
ghost use Rattle.ring_world.specs.Placed.{IsPlacedAt, IsUpAt};
ghost use Rattle.ring_world.specs.Shows.{world_of, member_of, member_in};
ghost use Rattle.ring_world.specs.Copied.{copy_of, copy_in_list, state_in, marks_copy, HaveRoom, AreCopied};

use crate::arms;
use crate::conditions::is_known;
use crate::copies::{close, copy_in, copy_out, finish, gain_on, put_on, take_item};
use crate::log::messages_between;
use crate::neighbours::{id_at, view_at_place};
use crate::places::place_in;
use crate::plain_copy::PlainCopy;
use crate::plain_member::PlainMember;
use crate::state::Ring;
use queue_core::{Message, Op};
use queue_mirror::Master;
use queue_sync::{CopyItem, SyncIn};
use ring_names::{CreditSpec, MemberId, Name, OutOfMemory, Reason};
use ring_rules::CopyStep;
use std::alloc::Global;

/// Whether a message marks a copy to the member of an id.
fn marks(message: &Message, id: u32) -> bool
    ensures { result ≡ marks_copy id message.now }
{
    match message {
        Message::Queue(Op::SyncMark { target }) => target.0 == id,
        _ => false,
    }
}

fn any_marks(log: &[Message], id: u32) -> bool
    ensures { result ≡ list_any (marks_copy id) log.now }
{
    log.iter().any(|message| marks(message, id))
}

/// Whether the member at a place has marked a copy to that of an id before.
fn has_marked(ring: &Ring, place: usize, id: u32) -> bool
    requires { place < length ring.now.members.items }
    ensures { result ≡ marked_before (world_of ring.now) (suc place) id }
{
    any_marks(&ring.members[place].log, id)
}

/// Whether the member at a place may open a copy to that at another.
fn may_open_to(ring: &Ring, copies: &[PlainCopy], place: usize, target: usize) -> Result<(), Reason>
    requires up { IsUpAt ring.now place }
    requires target { target < length ring.now.members.items }
    ensures { result ≡ answer_of (target_refusal (state_in ring.now copies.now) (suc place)
        (view_in (world_of ring.now) (member_at (world_of ring.now) (suc place)).version) (suc target)) }
{
    let view = view_at_place(ring, place);
    let id = MemberId(id_at(target));
    if !view.has_entry(id) {
        return Err(Reason::UnknownMember);
    }
    if !view.is_live(id) {
        return Err(Reason::AlreadyDead);
    }
    if view.is_synced(id) {
        return Err(Reason::AlreadySynced);
    }
    if copy_out(copies, id_at(place)).is_some() || has_marked(ring, place, id.0) {
        return Err(Reason::AlreadySyncing);
    }
    Ok(())
}

/// Whether it may open a copy to the member of a name.
#[tactic(auto, using(crate::proofs::code::ShownParts::read_member, crate::proofs::code::Found::few_members))]
pub(crate) fn may_open(
    ring: &Ring,
    copies: &[PlainCopy],
    place: usize,
    target: &Name,
) -> Result<(), Reason>
    requires { IsPlacedAt ring.now place }
    ensures { result ≡ answer_of (up_refusal (world_of ring.now) (suc place)
        (step_refusal (state_in ring.now copies.now) (suc place) (copying.Open target.now))) }
{
    let member = &ring.members[place];
    member.phase.is_up()?;
    Master::may_speak(
        view_at_place(ring, place),
        MemberId(id_at(place)),
        member.started,
    )?;
    match place_in(ring, target) {
        None => Err(Reason::UnknownMember),
        Some(target) => may_open_to(ring, copies, place, target),
    }
}

/// Whether it may put the next load on its copy.
#[tactic(auto, using(crate::proofs::code::ShownParts::read_member, crate::proofs::code::OfCopies::read_copy))]
pub(crate) fn may_put(ring: &Ring, copies: &[PlainCopy], place: usize) -> Result<(), Reason>
    requires { IsPlacedAt ring.now place }
    ensures { result ≡ answer_of (up_refusal (world_of ring.now) (suc place)
        (step_refusal (state_in ring.now copies.now) (suc place) copying.Put)) }
{
    ring.members[place].phase.is_up()?;
    match copy_out(copies, id_at(place)) {
        None => Err(Reason::NoSyncLink),
        Some(i) => {
            if copies[i].is_blocked() {
                return Err(Reason::NoCredit);
            }
            Ok(())
        }
    }
}

/// Whether it may gain credit on its copy.
#[tactic(auto, using(crate::proofs::code::ShownParts::read_member, crate::proofs::code::OfCopies::read_copy))]
pub(crate) fn may_gain(ring: &Ring, copies: &[PlainCopy], place: usize) -> Result<(), Reason>
    requires { IsPlacedAt ring.now place }
    ensures { result ≡ answer_of (up_refusal (world_of ring.now) (suc place)
        (step_refusal (state_in ring.now copies.now) (suc place) copying.Gain)) }
{
    ring.members[place].phase.is_up()?;
    match copy_out(copies, id_at(place)) {
        None => Err(Reason::NoSyncLink),
        Some(i) => {
            if copies[i].has_no_grant() {
                return Err(Reason::NoGrant);
            }
            Ok(())
        }
    }
}

/// Whether it may take the next load of a copy.
#[tactic(auto, using(crate::proofs::code::ShownParts::read_member))]
fn may_take_from(ring: &Ring, place: usize, copy: &PlainCopy) -> Result<(), Reason>
    requires { place < length ring.now.members.items }
    ensures { result ≡ answer_of (copy_take_refusal (world_of ring.now) (suc place) (copy_of copy.now)) }
{
    let member = &ring.members[place];
    is_known(copy.opened, member.version)?;
    if copy.holds_nothing() {
        return Err(Reason::NothingToTake);
    }
    let (got, _) = member.got_and_forgot(copy.sender as usize);
    if copy.is_done_next() && got < copy.mark {
        return Err(Reason::MarkNotSeen);
    }
    Ok(())
}

/// Whether it may take the next load of the oldest copy to it.
#[tactic(auto, using(crate::proofs::code::ShownParts::read_member, crate::proofs::code::OfCopies::read_copy))]
pub(crate) fn may_take(ring: &Ring, copies: &[PlainCopy], place: usize) -> Result<(), Reason>
    requires { IsPlacedAt ring.now place }
    ensures { result ≡ answer_of (up_refusal (world_of ring.now) (suc place)
        (step_refusal (state_in ring.now copies.now) (suc place) copying.Take)) }
{
    ring.members[place].phase.is_up()?;
    match copy_in(copies, id_at(place)) {
        None => Err(Reason::NoSyncLink),
        Some(i) => may_take_from(ring, place, &copies[i]),
    }
}

/// Whether it may do a step on a copy.
pub(crate) fn may_step(
    ring: &Ring,
    copies: &[PlainCopy],
    place: usize,
    step: CopyStep,
) -> Result<(), Reason>
    requires { IsPlacedAt ring.now place }
    ensures { result ≡ answer_of (up_refusal (world_of ring.now) (suc place)
        (step_refusal (state_in ring.now copies.now) (suc place) step)) }
{
    match step {
        CopyStep::Open(target) => may_open(ring, copies, place, &target),
        CopyStep::Put => may_put(ring, copies, place),
        CopyStep::Take => may_take(ring, copies, place),
        CopyStep::Gain => may_gain(ring, copies, place),
    }
}

/// Whether the member at a place has no credit on the link that it sends on.
#[tactic(auto, using(crate::proofs::code::ShownParts::read_member))]
pub(crate) fn is_blocked(ring: &Ring, place: usize) -> bool
    requires { place < length ring.now.members.items }
    ensures { result ≡ blocked_at (world_of ring.now) (suc place) }
{
    let Some(out) = ring.members[place].out else {
        return false;
    };
    match ring.links.get(out) {
        Some(link) => link.is_blocked(),
        None => true,
    }
}

/// It opens a copy to the member at another place.
#[tactic(auto, using(crate::proofs::code::ShownParts::read_member, crate::proofs::code::Found::few_members))]
fn open_to(
    alloc: Global,
    ring: &mut Ring,
    copies: &mut Vec<PlainCopy>,
    place: usize,
    target: usize,
) -> Result<(), OutOfMemory>
    requires placed { IsPlacedAt ring.old place }
    requires target { target < length ring.old.members.items }
    requires room { HaveRoom 3 copies.old.items }
    ensures ok { OnOk result (state_in ring.new copies.new.items
        ≡ open_copy (state_in ring.old copies.old.items) (suc place) (suc target)) }
    ensures room { OnOk result (HaveRoom 1 copies.new.items) }
    ensures err { OnErr result (state_in ring.new copies.new.items ≡ state_in ring.old copies.old.items) }
{
    let member = &ring.members[place];
    let mark = member.log.len() as u64 + 1;
    let queue = member.mirror.queue();
    let version = member.version;
    let copy = PlainCopy::begin(
        alloc,
        ring.credit,
        queue,
        id_at(place),
        id_at(target),
        version,
        mark,
    )?;
    copies.reserve(1)?;
    let target = MemberId(id_at(target));
    arms::publish(ring, place, Message::Queue(Op::SyncMark { target }))?;
    copies.push_reserved(copy);
    Ok(())
}

/// A copy of an item.
fn item_copied(item: &CopyItem) -> Result<CopyItem, OutOfMemory>
    ensures { IfOk result (λ copy. copy ≡ item.now) }
{
    Ok(CopyItem {
        at: item.at,
        body: item.body.copy()?,
        state: item.state,
    })
}

/// A receiver that keeps these items aside.
fn keep_all(alloc: Global, credit: CreditSpec, items: &[CopyItem]) -> Result<SyncIn, OutOfMemory>
    ensures { IfOk result (λ taken. taken ≡ record (begun (none_taken credit.initial credit.more)) {
      aside = all_kept (map item_of items.now) no_items;
    }) }
{
    let mut taken = SyncIn::begin(alloc, credit);
    for item in items {
        match taken.item(item_copied(item)?) {
            Ok(()) => {}
            Err((_, OutOfMemory)) => return Err(OutOfMemory),
        }
    }
    Ok(taken)
}

/// It takes the operations among messages behind the mark.
fn take_since(taken: &mut SyncIn, messages: &[Message]) -> Result<(), OutOfMemory>
    ensures { OnOk result (taken.new ≡ record taken.old { since = (taken.old).since ++ ops messages.now }) }
{
    for message in messages {
        if let Message::Queue(operation) = message {
            taken.since_mark(operation)?;
        }
    }
    Ok(())
}

/// Copies of the messages `lo` + 1 to `hi` of the member at a place, if there is one.
#[tactic(auto, using(crate::proofs::code::OfCopies::none_between))]
fn said_at(
    alloc: Global,
    members: &[PlainMember],
    place: usize,
    lo: u64,
    hi: u64,
) -> Result<Vec<Message>, OutOfMemory>
    ensures { IfOk result (λ said. said.items ≡ the_messages lo hi (member_in members.now place).log) }
{
    match members.get(place) {
        Some(member) => messages_between(alloc, &member.log, lo, hi),
        None => Ok(Vec::new(alloc)),
    }
}

/// The same of the member of an id; nobody has id 0.
#[tactic(auto, using(crate::proofs::code::OfCopies::nobody_said, crate::proofs::code::OfCopies::said_by))]
fn said_between(
    alloc: Global,
    ring: &Ring,
    id: u32,
    lo: u64,
    hi: u64,
) -> Result<Vec<Message>, OutOfMemory>
    ensures { IfOk result (λ said. said.items ≡ the_messages lo hi (log_of (world_of ring.now) id)) }
{
    if id == 0 {
        return Ok(Vec::new(alloc));
    }
    said_at(alloc, &ring.members, id as usize - 1, lo, hi)
}

/// What the member at a place has taken of a copy, with the operations of its master behind the mark.
#[tactic(auto, using(crate::proofs::code::ShownParts::read_member))]
fn brought(
    alloc: Global,
    ring: &Ring,
    place: usize,
    copy: &PlainCopy,
) -> Result<SyncIn, OutOfMemory>
    requires { place < length ring.now.members.items }
    ensures { IfOk result (λ taken. taken ≡ record (begun (none_taken ring.now.credit.initial ring.now.credit.more)) {
      aside = all_kept (copy_of copy.now).aside no_items;
      marked = true;
      since = since_copy (world_of ring.now) (suc place) (copy_of copy.now);
    }) }
{
    let (got, _) = ring.members[place].got_and_forgot(copy.sender as usize);
    let behind = said_between(alloc, ring, copy.sender, copy.mark, got)?;
    let mut taken = keep_all(alloc, ring.credit, &copy.aside)?;
    taken.saw_mark();
    take_since(&mut taken, &behind)?;
    Ok(taken)
}

/// The mirror at a place is what a copy made of it.
#[tactic(auto, using(crate::proofs::code::OfCopies::copied_members, crate::proofs::code::ShownParts::rewrite_member))]
fn put_in_place(
    members: &mut [PlainMember],
    place: usize,
    taken: &mut SyncIn,
) -> Result<(), OutOfMemory>
    requires within { place < length members.old }
    requires marked { (taken.old).marked ≡ true }
    ensures ok { OnOk result (map member_of members.new ≡ slice_set (map member_of members.old) place
        (copied (sync_mirror (member_in members.old place).mirror (taken.old).aside (taken.old).since)
        (member_in members.old place))) }
    ensures err { OnErr result (map member_of members.new ≡ map member_of members.old) }
{
    members[place].copy(taken)
}

/// The member at a place takes the last load of a copy.
#[tactic(auto, using(crate::proofs::code::OfCopies::read_copy))]
fn take_done(
    alloc: Global,
    ring: &mut Ring,
    copies: &mut [PlainCopy],
    place: usize,
    i: usize,
    blocked: bool,
) -> Result<(), OutOfMemory>
    requires place { place < length ring.old.members.items }
    requires there { i < length copies.old }
    requires done { done_is_next (copy_in_list copies.old i).loads ≡ true }
    requires room { HaveRoom 3 copies.old }
    requires copied { AreCopied (state_in ring.old copies.old) }
    ensures ok { OnOk result (state_in ring.new copies.new ≡ record {
      ring = copied_at (world_of ring.old) (suc place) (copied_mirror (world_of ring.old) (suc place) (copy_in_list copies.old i));
      copies = slice_set (map copy_of copies.old) i (done_taken blocked (copy_in_list copies.old i));
    }) }
    ensures room { OnOk result (HaveRoom 1 copies.new) }
    ensures err { OnErr result (state_in ring.new copies.new ≡ state_in ring.old copies.old) }
{
    let mut taken = brought(alloc, ring, place, &copies[i])?;
    put_in_place(&mut ring.members, place, &mut taken)?;
    finish(copies, i, blocked);
    Ok(())
}

/// It takes the next load of a copy, or its end.
#[tactic(auto, using(crate::proofs::code::OfCopies::read_copy))]
fn take_from(
    alloc: Global,
    ring: &mut Ring,
    copies: &mut [PlainCopy],
    place: usize,
    i: usize,
) -> Result<(), OutOfMemory>
    requires place { place < length ring.old.members.items }
    requires there { i < length copies.old }
    requires room { HaveRoom 3 copies.old }
    requires copied { AreCopied (state_in ring.old copies.old) }
    ensures ok { OnOk result (state_in ring.new copies.new
        ≡ take_copy (state_in ring.old copies.old) (suc place) i) }
    ensures room { OnOk result (HaveRoom 1 copies.new) }
    ensures err { OnErr result (state_in ring.new copies.new ≡ state_in ring.old copies.old) }
{
    let blocked = is_blocked(ring, place);
    if copies[i].is_done_next() {
        return take_done(alloc, ring, copies, place, i, blocked);
    }
    if copies[i].has_load() {
        take_item(copies, i, blocked)?;
        return Ok(());
    }
    close(copies, i);
    Ok(())
}

/// The member at a place does a step on a copy.
#[tactic(auto, using(crate::proofs::code::OfCopies::read_copy))]
pub(crate) fn do_step(
    alloc: Global,
    ring: &mut Ring,
    copies: &mut Vec<PlainCopy>,
    place: usize,
    step: CopyStep,
) -> Result<(), OutOfMemory>
    requires placed { IsPlacedAt ring.old place }
    requires enabled { up_refusal (world_of ring.old) (suc place)
        (step_refusal (state_in ring.old copies.old.items) (suc place) step) ≡ None }
    requires room { HaveRoom 3 copies.old.items }
    requires copied { AreCopied (state_in ring.old copies.old.items) }
    ensures ok { OnOk result (state_in ring.new copies.new.items
        ≡ step_done (state_in ring.old copies.old.items) (suc place) step) }
    ensures room { OnOk result (HaveRoom 1 copies.new.items) }
    ensures err { OnErr result (state_in ring.new copies.new.items ≡ state_in ring.old copies.old.items) }
{
    match step {
        CopyStep::Open(target) => match place_in(ring, &target) {
            None => unreachable!(),
            Some(target) => open_to(alloc, ring, copies, place, target),
        },
        CopyStep::Put => match copy_out(copies, id_at(place)) {
            None => unreachable!(),
            Some(i) => put_on(copies, i),
        },
        CopyStep::Take => match copy_in(copies, id_at(place)) {
            None => unreachable!(),
            Some(i) => take_from(alloc, ring, copies, place, i),
        },
        CopyStep::Gain => match copy_out(copies, id_at(place)) {
            None => unreachable!(),
            Some(i) => {
                gain_on(copies, i);
                Ok(())
            }
        },
    }
}
