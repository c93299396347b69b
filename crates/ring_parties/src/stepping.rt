//! One event of a cluster.
ghost use Rattle.std.specs.Prelude.{◌≡◌, ◌∷◌, ◌++◌, ◌+◌, ◌<◌, ◌^◌, [], true, length, OnOk, OnErr, IfErr, IfOk};
ghost use Rattle.std.specs.Prelude.{Some, vec_len, vec_capacity};
ghost use Rattle.registrar.specs.Registry.{AreHere, is_known};
ghost use Rattle.registrar.specs.Handled.{with_link};

use crate::control::Control;
use crate::looking::Replaced;
use crate::parties::Parties;
use crate::pending_deposit::PendingDeposit;
use activity::Load;
use group_view::{LinkName, Request};
use ordered_link::RingIn;
use registrar::Registrar;
use ring_names::{CreditSpec, Name, OutOfMemory};
use ring_rules::{Event, Refused};

/// The most events of a journal.
const MOST_EVENTS: usize = (1 << 59) - 1;

/// An event joins a journal that has room for it.
fn push_reserved(journal: &mut Vec<Event>, event: Event)
    requires { vec_len journal.old < vec_capacity journal.old }
    ensures { journal.new.items ≡ journal.old.items ++ event ∷ [] }
{
    if journal.push(event).is_err() {
        unreachable!()
    }
}

/// An equal event for the journal, and room for it there.
fn make_room(journal: &mut Vec<Event>, event: &Event) -> Result<Event, OutOfMemory>
    ensures same { journal.new.items ≡ journal.old.items }
    ensures event { IfOk result (λ e. e ≡ event.now) }
    ensures room { OnOk result (vec_len journal.new < vec_capacity journal.new) }
    ensures few { OnOk result (length journal.new.items + 1 < 2 ^ 59) }
{
    if journal.len() >= MOST_EVENTS {
        return Err(OutOfMemory);
    }
    let copy = event.copy()?;
    if journal.reserve(1).is_err() {
        return Err(OutOfMemory);
    }
    Ok(copy)
}

/// A link goes to the registrar, which knows both its members. Without memory for that it comes back.
fn deposit(
    control: &mut Control,
    registrar: &mut Registrar<RingIn<Load>>,
    name: LinkName,
    link: RingIn<Load>,
) -> Result<(), RingIn<Load>>
    requires here { AreHere (registrar.old).links }
    requires from { is_known registrar.old name.from.0 ≡ true }
    requires to { is_known registrar.old name.to.0 ≡ true }
    ensures ok { OnOk result (registrar.new ≡ with_link registrar.old (record { name = name; link = Some link })) }
    ensures err { OnErr result (registrar.new ≡ registrar.old) }
    ensures back { IfErr result (λ l. l ≡ link) }
{
    match control.visit(registrar, Request::deposit(name, link)) {
        Ok(_noted) => Ok(()),
        Err((request, OutOfMemory)) => match request.into_link() {
            Ok((_name, link)) => Err(link),
            Err(_other) => unreachable!(),
        },
    }
}

impl Parties {
    ghost use Rattle.std.specs.Prelude.{◌≡◌, ◌∷◌, ◌++◌, ◌+◌, ◌<◌, ◌^◌, [], true, false, length, OnOk, OnErr};
    ghost use Rattle.std.specs.Prelude.{Some, None, Err};
    ghost use Rattle.ring_names.specs.declared.reason.Reason.{Reason};
    ghost use Rattle.ring_rules.specs.declared.phase.Phase.TheVariants.{Up};
    ghost use Rattle.ring_rules.specs.Event.{by_of, refusal};
    ghost use Rattle.ring_parties.specs.States.{state, IsEventIn};
    ghost use Rattle.ring_parties.specs.Parties.{node_at};
    ghost use Rattle.ring_parties.specs.Tried.{IsJudged};
    ghost use Rattle.ring_parties.specs.Keeps.{KeepsStand};
    ghost use Rattle.ring_parties.specs.Standing.{StandAfter, StandSomewhere};
    ghost use Rattle.ring_parties.specs.Replaced.{BetweenSomewhere, MeetsReplaced};
    ghost use Rattle.ring_parties.specs.Looking.{replaced_seen};
    ghost use Rattle.ring_parties.specs.Refused.{id_named, NothingWaits};

    /// The event of the member at a place happens, where it is enabled, and joins the journal. A refusal changes
    /// nothing. Before an event that isn't refused what the registrar is owed goes there, and the member collects the
    /// links that wait for it; without memory for that nothing happens.
    pub fn step(
        &mut self,
        credit: CreditSpec,
        names: &[Name],
        journal: &mut Vec<Event>,
        i: usize,
        event: &Event,
    ) -> Result<(), Refused>
        requires at { IsEventIn (state credit names.now journal.old.items) i event.now }
        requires standing { StandAfter credit names.now journal.old.items (self.old).all }
        requires keeps { KeepsStand (state credit names.now journal.old.items) (self.old).keeps }
        ensures standing { StandAfter credit names.now journal.new.items (self.new).all }
        ensures keeps { KeepsStand (state credit names.now journal.new.items) (self.new).keeps }
        ensures judged { IsJudged (refusal (state credit names.now journal.old.items) event.now) result }
        ensures ok { OnOk result (journal.new.items ≡ journal.old.items ++ event.now ∷ []) }
        ensures refused { (r : Reason) → refusal (state credit names.now journal.old.items) event.now ≡ Some r
            → (result ≡ Err (Refused.NotEnabled r)) × (self.new ≡ self.old) }
        ensures err { OnErr result (journal.new.items ≡ journal.old.items) }
        ensures owes { OnErr result ((self.new).owes ≡ true → (self.old).owes ≡ true) }
    {
        if let Some(reason) = self.refusal(i, event) {
            return Err(Refused::NotEnabled(reason));
        }
        match self.step_enabled(credit, names, journal, i, event) {
            Ok(()) => Ok(()),
            Err(OutOfMemory) => Err(Refused::OutOfMemory),
        }
    }

    /// The same of an event that nothing refuses.
    fn step_enabled(
        &mut self,
        credit: CreditSpec,
        names: &[Name],
        journal: &mut Vec<Event>,
        i: usize,
        event: &Event,
    ) -> Result<(), OutOfMemory>
        requires at { IsEventIn (state credit names.now journal.old.items) i event.now }
        requires standing { StandAfter credit names.now journal.old.items (self.old).all }
        requires keeps { KeepsStand (state credit names.now journal.old.items) (self.old).keeps }
        requires enabled { refusal (state credit names.now journal.old.items) event.now ≡ None }
        ensures standing { StandAfter credit names.now journal.new.items (self.new).all }
        ensures keeps { KeepsStand (state credit names.now journal.new.items) (self.new).keeps }
        ensures ok { OnOk result (journal.new.items ≡ journal.old.items ++ event.now ∷ []) }
        ensures err { OnErr result (journal.new.items ≡ journal.old.items) }
        ensures owes { OnErr result ((self.new).owes ≡ true → (self.old).owes ≡ true) }
    {
        self.hand_over()?;
        self.collect(i)?;
        let copy = make_room(journal, event)?;
        self.happen(credit, names, journal, i, event)?;
        push_reserved(journal, copy);
        Ok(())
    }

    /// The event of the member at a place happens, which nothing refuses, and then the ends meet that it has moved.
    fn happen(
        &mut self,
        credit: CreditSpec,
        names: &[Name],
        events: &[Event],
        i: usize,
        event: &Event,
    ) -> Result<(), OutOfMemory>
        requires within { i < length (self.old).all.nodes }
        requires delivered { (self.old).owes ≡ false }
        requires named { id_named (self.old).all (by_of event.now) ≡ Some (i + 1) }
        requires waits { (node_at (self.old).all i).held.phase ≡ Up → NothingWaits (i + 1) (self.old).all }
        requires few { length events.now + 1 < 2 ^ 59 }
        requires standing { StandAfter credit names.now events.now (self.old).all }
        requires keeps { KeepsStand (state credit names.now events.now) (self.old).keeps }
        requires enabled { refusal (state credit names.now events.now) event.now ≡ None }
        ensures standing { OnOk result (StandAfter credit names.now (events.now ++ event.now ∷ []) (self.new).all) }
        ensures keeps { OnOk result (KeepsStand (state credit names.now (events.now ++ event.now ∷ [])) (self.new).keeps) }
        ensures err { OnErr result (self.new ≡ self.old) }
    {
        match self.act(credit, i, event) {
            Ok(replaced) => {
                self.meet_replaced(replaced);
                self.meet_moved(i);
                Ok(())
            }
            Err(Refused::NotEnabled(_)) => unreachable!(),
            Err(Refused::OutOfMemory) => Err(OutOfMemory),
        }
    }

    /// An out end that was just replaced meets its other end for the last time, and is dropped.
    fn meet_replaced(&mut self, replaced: Option<Replaced>)
        requires { BetweenSomewhere (self.old).all (replaced_seen replaced) }
        ensures meets { MeetsReplaced (self.old).all (replaced_seen replaced) (self.new).all }
        ensures keeps { (self.new).keeps ≡ (self.old).keeps }
    {
        let Some((name, mut out)) = replaced else {
            return;
        };
        self.meet_in(&mut out, &name);
    }

    /// Hands to the registrar what it is owed.
    pub fn hand_over(&mut self) -> Result<(), OutOfMemory>
        requires { StandSomewhere (self.old).all }
        ensures same { (self.new).all ≡ (self.old).all }
        ensures keeps { (self.new).keeps ≡ (self.old).keeps }
        ensures ok { OnOk result ((self.new).owes ≡ false) }
        ensures owes { OnErr result (((self.old).owes ≡ true) × ((self.new).owes ≡ true)) }
    {
        let Some(PendingDeposit { name, link }) = self.pending_deposit.take() else {
            return Ok(());
        };
        let party = &mut self.members[name.from.0 as usize - 1];
        match deposit(&mut party.control, &mut self.registrar, name, link) {
            Ok(()) => Ok(()),
            Err(link) => {
                self.pending_deposit = Some(PendingDeposit { name, link });
                Err(OutOfMemory)
            }
        }
    }
}
