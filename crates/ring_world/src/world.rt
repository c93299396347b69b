//! The machine.
ghost use Rattle.std.specs.Prelude.{◌≡◌, ◌↔◌, ℕ, ◌+◌, ◌<◌, ◌≤◌, IsTrue, ◌++◌, ◌∷◌, [], Some, None, Result, Ok, Err, IsSome, IfOk};
ghost use Rattle.std.specs.Prelude.{option_map};
ghost use Rattle.std.specs.Prelude.{IfErr, OnOk};
ghost use Rattle.std.specs.Prelude.{OnErr};
ghost use Rattle.ring_names.specs.declared.reason.Reason.{Reason};
ghost use Rattle.ring_rules.specs.Refusal.{answer_of};
ghost use Rattle.group_view.specs.Change.{AreOpeningNames, most_entries};
ghost use Rattle.ring_rules.specs.Step.{opening as the_opening, size};
ghost use Rattle.ring_rules.specs.Machine.{view_in, newest, member_at, row_at};
ghost use Rattle.ring_rules.specs.Rows.{messages_between};
ghost use Rattle.ring_world.specs.Placed.{IsReady};
ghost use Rattle.ring_world.specs.Shows.{world_of};
ghost use Rattle.ring_rules.specs.OpenLinks.{walk_named, NeverRises};
ghost use Rattle.ring_rules.specs.Asked.{id_at, heard_at, got_at, base_at, log_at, state_at};
ghost use Rattle.ring_rules.specs.Asked.{counts_at, item_at};
ghost use Rattle.queue_core.specs.Shown.{item_of};
ghost use Rattle.ring_rules.specs.Quiet.{IsQuiet};
ghost use Rattle.ring_rules.specs.QueuePart.{part_of};
ghost use Rattle.queue_laws.specs.Laws.{MirrorsAgree, ConfirmedStands};
ghost use Rattle.ring_rules.specs.Event.{id_of, refusals_of};
ghost use Rattle.ring_copies.specs.Runs.{refusal, effect};
ghost use Rattle.ring_copies.specs.Laws.{IsLawfulWithCopies};
ghost use Rattle.ring_world.specs.Reached.{with_copies};
ghost use Rattle.ring_world.specs.Copied.{state_in, AreCopied, AreThen};

use crate::neighbours::newest_view;
use crate::places::place_in;
use crate::plain_copy::PlainCopy;
use crate::state::Ring;
use crate::walk::walk_of_name;
use crate::{asked, quiet, starting, stepping};
use group_view::View;
use queue_core::{Held, Message};
use queue_mirror::Mirror;
use ring_names::{CreditSpec, MemberId, Name, OutOfMemory, Position, Reason};
use ring_rules::{Counts, Event, MemberState, Refused};
use std::alloc::Global;
use std::marker::Model;

/// The most events that a ring ever applies.
const MOST_EVENTS: u64 = (1 << 59) - 1;

/// An enabled event happens; a refusal is noted.
#[tactic(auto, using(crate::proofs::code::Rules::noting))]
fn happen(
    alloc: Global,
    ring: &mut Ring,
    copies: &mut Vec<PlainCopy>,
    refusals: &mut Vec<Event>,
    event: &Event,
) -> Result<(), OutOfMemory>
    requires ready { IsReady (world_of ring.old) }
    requires copied { AreCopied (state_in ring.old copies.old.items) }
    requires enabled { refusal (state_in ring.old copies.old.items) event.now ≡ None }
    requires then { AreThen (state_in ring.old copies.old.items) event.now }
    ensures ok { OnOk result (state_in ring.new copies.new.items
        ≡ effect (state_in ring.old copies.old.items) event.now) }
    ensures refusals { OnOk result (refusals.new.items ≡ refusals.old.items ++ refusals_of (event.now ∷ [])) }
    ensures err { OnErr result (state_in ring.new copies.new.items ≡ state_in ring.old copies.old.items) }
    ensures err_refusals { OnErr result (refusals.new.items ≡ refusals.old.items) }
{
    if !event.is_refusal() {
        return stepping::step(alloc, ring, copies, event);
    }
    let noted = event.copy()?;
    refusals.reserve(1)?;
    stepping::step(alloc, ring, copies, event)?;
    refusals.push_reserved(noted);
    Ok(())
}

/// A ring: its members, the links between them, its views, the copies of its queue, and what its members refused.
#[derive(Drop)]
pub struct World {
    alloc: Global,
    ring: Ring,
    copies: Vec<PlainCopy>,
    refusals: Vec<Event>,
    applied: u64,
}

impl Model for World {
    ghost use Rattle.ring_world.specs.Reached.{WorldSeen};

    ghost Value = { WorldSeen };

    ghost use Rattle.ring_world.specs.Reached.{seen_of, IsRunning};

    ghost view = { seen_of };

    ghost invariant = { IsRunning };
}

impl World {
    /// The opening of a ring of these members, in ring order: all are up, nobody has published, and each
    /// has an empty link to its right neighbour, with its whole credit.
    pub fn opening(
        alloc: Global,
        members: &[Name],
        credit: CreditSpec,
    ) -> Result<World, OutOfMemory>
        requires { AreOpeningNames members.now }
        ensures ring { IfOk result (λ w. w.ring ≡ the_opening credit members.now) }
        ensures copies { IfOk result (λ w. w.copies ≡ []) }
        ensures refusals { IfOk result (λ w. w.refusals ≡ []) }
    {
        let ring = starting::opening(alloc, members, credit)?;
        Ok(World {
            alloc,
            ring,
            copies: Vec::new(alloc),
            refusals: Vec::new(alloc),
            applied: 0,
        })
    }

    /// The newest view.
    #[tactic(auto, using(crate::proofs::code::Running::running_placed))]
    pub fn view(&self) -> &View
        ensures { result.now ≡ view_in (self.now).ring (newest (self.now).ring) }
    {
        newest_view(&self.ring)
    }

    /// The walk of an origin round the ring, from its owner on: what the early packets to the owner, the owner, and
    /// each further running member with the packets open to it say that they got, and the late packets; the same of
    /// what was forgotten; and how much the owner has retired. A member that waits counts with its first packet. It
    /// is empty where every member has stopped, and for a name that nobody has.
    #[tactic(auto, using(crate::proofs::code::Running::running_placed, crate::proofs::code::HeldLaws::named_falls))]
    pub fn walk(&self, of: &Name) -> Result<Vec<u64>, OutOfMemory>
        ensures walk { IfOk result (λ walk. walk.items
            ≡ walk_named (self.now).ring (id_of (self.now).ring of.now)) }
        ensures falls { IfOk result (λ walk. NeverRises walk.items) }
    {
        walk_of_name(self.alloc, &self.ring, of)
    }

    /// The messages of one member that another has heard, in order: each once and without a gap, from the first
    /// on, or, where the other joined, from what its first packet told on.
    pub fn heard(&self, by: &Name, of: &Name) -> Result<Vec<Message>, OutOfMemory>
        requires by { IsSome (id_of (self.now).ring by.now) }
        requires of { IsSome (id_of (self.now).ring of.now) }
        ensures heard { IfOk result (λ v. v.items ≡ heard_at (self.now).ring
            (id_of (self.now).ring by.now) (id_of (self.now).ring of.now)) }
        ensures in_order { IfOk result (λ v. v.items ≡ messages_between
            (base_at (self.now).ring (id_of (self.now).ring by.now) (id_of (self.now).ring of.now))
            (got_at (self.now).ring (id_of (self.now).ring by.now) (id_of (self.now).ring of.now))
            (log_at (self.now).ring (id_of (self.now).ring of.now))) }
    {
        let all = asked::heard_named(self.alloc, &self.ring, by, of)?;
        Ok(all)
    }

    /// The messages of one member that another has heard, as `heard` has them, by their ids, and lent. It wants no
    /// memory.
    #[tactic(auto, using(crate::proofs::code::Running::running_placed))]
    pub fn heard_by(&self, by: MemberId, of: MemberId) -> &[Message]
        requires by_some { 1 ≤ by.0 }
        requires by_there { by.0 < size (self.now).ring }
        requires of_some { 1 ≤ of.0 }
        requires of_there { of.0 < size (self.now).ring }
        ensures { result.now ≡ (row_at (member_at (self.now).ring by.0) of.0).heard }
    {
        asked::heard_at(&self.ring, by.0 as usize - 1, of.0 as usize - 1)
    }

    /// The id of the member of a name, also of one that waits, or has stopped: none where nobody of the name was
    /// ever admitted. It wants no memory.
    pub fn member(&self, name: &Name) -> Option<MemberId>
        ensures { result ≡ id_at (id_of (self.now).ring name.now) }
    {
        asked::member_named(&self.ring, name)
    }

    /// How many members the ring has ever had, those that joined among them: their ids go from 1 to this number. It
    /// wants no memory.
    #[tactic(auto, using(crate::proofs::code::Running::running_placed))]
    pub fn members(&self) -> u32
        ensures value { result + 1 ≡ size (self.now).ring }
        ensures few { result ≤ most_entries }
    {
        self.ring.members.len() as u32
    }

    /// The name of the member of an id, by which the other calls find it. It wants no memory.
    #[tactic(auto, using(crate::proofs::code::HeldLaws::name_found, crate::proofs::code::ShownParts::read_member))]
    pub fn name_of(&self, id: MemberId) -> &Name
        requires some { 1 ≤ id.0 }
        requires there { id.0 < size (self.now).ring }
        ensures name { result.now ≡ (member_at (self.now).ring id.0).name }
        ensures found { id_of (self.now).ring result.now ≡ Some id.0 }
    {
        asked::name_at(&self.ring, id.0 as usize - 1)
    }

    /// The mirror of the queue at a member: also of one that has stopped, as it was then; of one that waits it holds
    /// nothing yet. It wants no memory.
    pub fn mirror(&self, of: &Name) -> &Mirror
        requires { IsSome (id_of (self.now).ring of.now) }
        ensures { (x : ℕ) → id_of (self.now).ring of.now ≡ Some x
            → result.now.mirror ≡ (member_at (self.now).ring x).mirror }
    {
        match place_in(&self.ring, of) {
            Some(place) => asked::mirror_at(&self.ring, place),
            None => unreachable!(),
        }
    }

    /// Where a member stands, and of one that is up how many messages its mirror of the queue lacks: none where it was
    /// there from the opening on, and of one that was admitted it isn't known until the master tells how many there are.
    /// It wants no memory.
    #[tactic(auto, using(crate::proofs::code::Running::running_placed))]
    pub fn state(&self, of: &Name) -> MemberState
        requires { IsSome (id_of (self.now).ring of.now) }
        ensures { result ≡ state_at (self.now).ring (id_of (self.now).ring of.now) }
    {
        match place_in(&self.ring, of) {
            Some(place) => asked::state_at(&self.ring, place),
            None => unreachable!(),
        }
    }

    /// The item of least position at or above `from` in the mirror of a member; none also where the member isn't up.
    /// It wants no memory.
    pub fn item_from(&self, of: &Name, from: Position) -> Option<Held<'_>>
        requires { IsSome (id_of (self.now).ring of.now) }
        ensures { option_map item_of result ≡ item_at (self.now).ring (id_of (self.now).ring of.now) from.0 }
    {
        match place_in(&self.ring, of) {
            Some(place) => asked::item_from(&self.ring, place, from),
            None => unreachable!(),
        }
    }

    /// What a member has published, and how much of it has come round to it: every member that is up has received
    /// that, or counted it by its first packet. It wants no memory.
    #[tactic(auto, using(crate::proofs::code::Running::running_placed))]
    pub fn counts(&self, by: &Name) -> Counts
        requires { IsSome (id_of (self.now).ring by.now) }
        ensures { result ≡ counts_at (self.now).ring (id_of (self.now).ring by.now) }
    {
        match place_in(&self.ring, by) {
            Some(place) => asked::counts_at(&self.ring, place),
            None => unreachable!(),
        }
    }

    /// Whether the ring is quiet: no member runs; or every running one is up, has the newest view and nothing to
    /// take, and all that it published has come round, no entry is dead, and nobody who lives has stopped; whoever
    /// runs and misses nothing of the queue is registered as synchronised; and where the master runs, it has
    /// published its start if it leads in a later term, and every running member knows how many messages its mirror
    /// lacks. It wants no memory.
    pub fn quiet(&self) -> bool
        ensures { IsTrue result ↔ IsQuiet (self.now).ring }
    {
        quiet::is_quiet(&self.ring)
    }

    /// What the members refused, in order: the events `Refuse` that were applied. It wants no memory.
    pub fn refusals(&self) -> &[Event]
        ensures { result.now ≡ (self.now).refusals }
    {
        &self.refusals
    }

    /// The first condition of the event that fails, if one fails. It wants no memory.
    #[tactic(auto, using(crate::proofs::code::Running::running_placed))]
    pub fn enabled(&self, event: &Event) -> Result<(), Reason>
        ensures { result ≡ answer_of (refusal (with_copies self.now) event.now) }
    {
        stepping::enabled(&self.ring, &self.copies, event)
    }

    /// The event happens, where it is enabled. Want of memory leaves the ring as it was; after
    /// 2^59 - 1 events each further one is answered so.
    pub fn apply(&mut self, event: &Event) -> Result<(), Refused>
        ensures enabled { OnOk result (refusal (with_copies self.old) event.now ≡ None) }
        ensures ok { OnOk result (with_copies self.new ≡ effect (with_copies self.old) event.now) }
        ensures refusals { OnOk result ((self.new).refusals
            ≡ (self.old).refusals ++ refusals_of (event.now ∷ [])) }
        ensures lawful { OnOk result (IsLawfulWithCopies (self.new).ring.initial (with_copies self.new)) }
        ensures mirrors { OnOk result (MirrorsAgree (part_of (self.new).ring)) }
        ensures confirmed { OnOk result (ConfirmedStands (part_of (self.new).ring)) }
        ensures refused { (reason : Reason) → refusal (with_copies self.old) event.now ≡ Some reason
            → result ≡ Err (Refused.NotEnabled reason) }
        ensures reason { IfErr result (λ e. (reason : Reason) → e ≡ Refused.NotEnabled reason
            → refusal (with_copies self.old) event.now ≡ Some reason) }
        ensures memory { IfErr result (λ e. e ≡ Refused.OutOfMemory
            → refusal (with_copies self.old) event.now ≡ None) }
        ensures err { OnErr result (self.new ≡ self.old) }
    {
        if let Err(reason) = self.enabled(event) {
            return Err(Refused::NotEnabled(reason));
        }
        if self.applied >= MOST_EVENTS {
            return Err(Refused::OutOfMemory);
        }
        if happen(
            self.alloc,
            &mut self.ring,
            &mut self.copies,
            &mut self.refusals,
            event,
        )
        .is_err()
        {
            return Err(Refused::OutOfMemory);
        }
        self.applied += 1;
        Ok(())
    }
}
