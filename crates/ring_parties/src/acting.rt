//! An event of a member of the cluster.
ghost use Rattle.std.specs.Prelude.{false, ◌≡◌, ◌+◌, ◌-◌, ◌<◌, ◌≤◌, ℕ, true, IfSome, IfErr, IfOk, OnOk};
ghost use Rattle.std.specs.Prelude.{OnErr, Some, None, length, position, bytes_eq, option_map};
ghost use Rattle.registrar.specs.Registry.{AreHere};
ghost use Rattle.registrar.specs.Handled.{with_stopped};
ghost use Rattle.registrar.specs.Asked.{stop_refusal as the_stop_refusal};
ghost use Rattle.ring_rules.specs.Kind.{Steps, kind_of, shown_kind};
ghost use Rattle.ring_parties.specs.Parties.{shown_of, shown_in, keeps_in};
ghost use Rattle.ring_parties.specs.Keeps.{kept_after};
ghost use Rattle.ring_parties.specs.Acting.{IsReady, IsBooked, step_refused, DoesStep};
ghost use Rattle.ring_parties.specs.Acting.{is_alone, alone_refused, DoesAlone};
ghost use Rattle.ring_parties.specs.Alone.{IsAlone};
ghost use Rattle.ring_parties.specs.Tried.{IsJudged, Tries};

use crate::control::Control;
use crate::looking::{Replaced, ask, look};
use crate::node::{Node, be_alone, gain, pick, put, stop, take_end};
use crate::parties::Parties;
use crate::party::Party;
use crate::queue::{say, take_packet};
use crate::refusing::{look_refusal, no_copy, own_refusal, stop_refusal, unknown};
use activity::Load;
use gm_member::Ask;
use group_view::Request;
use ordered_link::RingIn;
use registrar::Registrar;
use ring_names::{CreditSpec, MemberId, Name};
use ring_rules::{Event, Kind, LinkStep, Refused, ViewChange};

/// Whether the member has that name.
fn has_name(node: &Node, name: &Name) -> bool
    ensures { result ≡ bytes_eq (shown_of node.now).held.name name.now }
{
    node.name().bytes() == name.bytes()
}

/// The place of the first member of that name.
fn first_named(members: &[Party], name: &Name) -> Option<usize>
    ensures place { result ≡ position (λ m. bytes_eq (shown_in m).held.name name.now) members.now }
    ensures within { IfSome result (λ i. i < length members.now) }
{
    members.iter().position(|party| has_name(&party.node, name))
}

/// The member does a step on its links, where it is enabled.
fn do_step(party: &mut Party, step: LinkStep) -> Result<(), Refused>
    requires ready { IsReady (shown_in party.old) }
    requires booked { IsBooked (shown_in party.old) (keeps_in party.old) }
    ensures tries { Tries (step_refused step (shown_in party.old)) (DoesStep step)
        (shown_in party.old) (shown_in party.new) result }
    ensures keeps { OnOk result (keeps_in party.new ≡ kept_after (Steps step) (shown_in party.old) (keeps_in party.old)) }
    ensures err { OnErr result (keeps_in party.new ≡ keeps_in party.old) }
{
    let Ok(()) = be_alone(&mut party.node) else {
        return Err(Refused::OutOfMemory);
    };
    step_alone(party, step)
}

/// The same of one that is alone in its round.
fn step_alone(party: &mut Party, step: LinkStep) -> Result<(), Refused>
    requires ready { IsReady (shown_in party.old) }
    requires booked { IsBooked (shown_in party.old) (keeps_in party.old) }
    requires alone { IsAlone party.old.node }
    ensures tries { Tries (step_refused step (shown_in party.old)) (DoesStep step)
        (shown_in party.old) (shown_in party.new) result }
    ensures keeps { OnOk result (keeps_in party.new ≡ kept_after (Steps step) (shown_in party.old) (keeps_in party.old)) }
    ensures err { OnErr result (keeps_in party.new ≡ keeps_in party.old) }
{
    match step {
        LinkStep::Pick => pick(&mut party.node),
        LinkStep::Take => take_packet(party),
        LinkStep::TakeEnd => take_end(&mut party.node),
        LinkStep::Gain => gain(&mut party.node),
        LinkStep::Put => put(&mut party.node),
    }
}

/// The event of a member that does it by itself happens, where it is enabled.
fn do_alone(party: &mut Party, event: &Event) -> Result<(), Refused>
    requires alone { is_alone (shown_kind (kind_of event.now)) ≡ true }
    requires free { (shown_in party.old).held.asks ≡ false }
    requires ready { IsReady (shown_in party.old) }
    requires booked { IsBooked (shown_in party.old) (keeps_in party.old) }
    ensures judged { IsJudged (alone_refused (kind_of event.now) (keeps_in party.old) (shown_in party.old)) result }
    ensures ok { OnOk result (DoesAlone (kind_of event.now) (keeps_in party.old) (shown_in party.old) (shown_in party.new)) }
    ensures keeps { OnOk result (keeps_in party.new
        ≡ kept_after (kind_of event.now) (shown_in party.old) (keeps_in party.old)) }
    ensures err { OnErr result (shown_in party.new ≡ shown_in party.old) }
    ensures err_keeps { OnErr result (keeps_in party.new ≡ keeps_in party.old) }
{
    match event.kind() {
        Kind::Says => say(party, event),
        Kind::Links(step) => do_step(party, step),
        _ => unreachable!(),
    }
}

/// The registrar hears that a member stops, of which it hasn't heard before.
fn notify(
    control: &mut Control,
    registrar: &mut Registrar<RingIn<Load>>,
    by: MemberId,
) -> Result<(), Refused>
    requires here { AreHere (registrar.old).links }
    requires allowed { the_stop_refusal registrar.old by.0 ≡ None }
    ensures ok { OnOk result (registrar.new ≡ with_stopped registrar.old by.0) }
    ensures reason { IfErr result (λ e. e ≡ Refused.OutOfMemory) }
    ensures err { OnErr result (registrar.new ≡ registrar.old) }
{
    match control.visit(registrar, Request::Stopped { by }) {
        Ok(_noted) => Ok(()),
        Err((_request, _fault)) => Err(Refused::OutOfMemory),
    }
}

impl Parties {
    ghost use Rattle.std.specs.Prelude.{◌≡◌, ◌+◌, ◌<◌, ◌≤◌, ℕ, true, IfSome, IfOk, OnOk, OnErr, None};
    ghost use Rattle.std.specs.Prelude.{length};
    ghost use Rattle.std.specs.Prelude.{option_map};
    ghost use Rattle.group_view.specs.View.{number};
    ghost use Rattle.group_view.specs.Since.{view_at};
    ghost use Rattle.ring_rules.specs.Kind.{kind_of, shown_kind, Changes, Stops};
    ghost use Rattle.ring_parties.specs.Keeps.{keeps_at, all_kept_after};
    ghost use Rattle.ring_parties.specs.Parties.{node_at};
    ghost use Rattle.ring_parties.specs.Standing.{StandSomewhere, MayAct};
    ghost use Rattle.ring_parties.specs.Tried.{IsJudged};
    ghost use Rattle.ring_parties.specs.Looking.{replaced_seen};
    ghost use Rattle.ring_parties.specs.Acting.{is_alone, alone_refused, stop_refused, look_refused};
    ghost use Rattle.ring_parties.specs.Acting.{newest_of, viewing, LooksAt, HasCredit, Acts};
    ghost use Rattle.ring_parties.specs.Refused.{id_named, mark_refused, erase_refused, office_of, own_refused};
    ghost use Rattle.ring_parties.specs.Refused.{synced_refused, act_refused, marked_in};
    ghost use Rattle.ring_parties.specs.Looking.{makes_view, ask_refused, view_for};

    /// The place of the member of that name.
    pub fn place_named(&self, name: &Name) -> Option<usize>
        ensures place { id_named (self.now).all name.now ≡ option_map (λ i. i + 1) result }
        ensures within { IfSome result (λ i. i < length (self.now).all.nodes) }
    {
        first_named(&self.members, name)
    }

    /// The id of the member of that name.
    pub(crate) fn id_named(&self, name: &Name) -> Option<MemberId>
        requires { StandSomewhere (self.now).all }
        ensures id { id_named (self.now).all name.now ≡ option_map number result }
        ensures within { IfSome result (λ id. 1 ≤ id.0) }
    {
        let place = self.place_named(name)?;
        Some(MemberId(place as u32 + 1))
    }

    /// The event of the member at a place happens there, where it is enabled: the out end that the member replaces.
    pub(crate) fn act(
        &mut self,
        credit: CreditSpec,
        i: usize,
        event: &Event,
    ) -> Result<Option<Replaced>, Refused>
        requires may { MayAct self.old i }
        requires credit { HasCredit credit (node_at (self.old).all i).held }
        ensures judged { IsJudged (act_refused (kind_of event.now) (keeps_at (self.old).keeps i) i (self.old).all) result }
        ensures ok { IfOk result (λ replaced. Acts (kind_of event.now) (keeps_at (self.old).keeps i) i
            (marked_in (kind_of event.now) (self.old).all)
            (self.old).all (self.new).all (replaced_seen replaced)) }
        ensures keeps { OnOk result ((self.new).keeps
            ≡ all_kept_after (kind_of event.now) i (self.old).all (self.old).keeps) }
        ensures err { OnErr result (self.new ≡ self.old) }
    {
        match event.kind() {
            Kind::Says | Kind::Links(_) => {
                self.act_alone(i, event)?;
                Ok(None)
            }
            Kind::Copies(_) => Err(Refused::NotEnabled(no_copy(&self.members[i].node))),
            Kind::Changes(change) => self.act_change(credit, i, change),
            Kind::Stops => {
                self.act_stop(i)?;
                Ok(None)
            }
            Kind::Reads(version) => self.act_refresh(i, version),
            Kind::Tells => {
                self.act_refuse(i, event)?;
                Ok(None)
            }
        }
    }

    /// The member at a place does the event by itself, where it is enabled.
    fn act_alone(&mut self, i: usize, event: &Event) -> Result<(), Refused>
        requires may { MayAct self.old i }
        requires alone { is_alone (shown_kind (kind_of event.now)) ≡ true }
        ensures judged { IsJudged (alone_refused (kind_of event.now) (keeps_at (self.old).keeps i)
            (node_at (self.old).all i)) result }
        ensures ok { OnOk result ((d : ℕ) → Acts (kind_of event.now) (keeps_at (self.old).keeps i) i d
            (self.old).all (self.new).all None) }
        ensures keeps { OnOk result ((self.new).keeps
            ≡ all_kept_after (kind_of event.now) i (self.old).all (self.old).keeps) }
        ensures err { OnErr result (self.new ≡ self.old) }
    {
        do_alone(&mut self.members[i], event)?;
        Ok(())
    }

    /// The member at a place stops, where it may, and the registrar hears of it first.
    fn act_stop(&mut self, i: usize) -> Result<(), Refused>
        requires { MayAct self.old i }
        ensures judged { IsJudged (stop_refused (node_at (self.old).all i)) result }
        ensures ok { OnOk result ((d : ℕ) → Acts Stops (keeps_at (self.old).keeps i) i d (self.old).all (self.new).all None) }
        ensures keeps { OnOk result ((self.new).keeps ≡ (self.old).keeps) }
        ensures err { OnErr result (self.new ≡ self.old) }
    {
        if let Some(reason) = stop_refusal(&self.members[i].node) {
            return Err(Refused::NotEnabled(reason));
        }
        let party = &mut self.members[i];
        let Ok(()) = be_alone(&mut party.node) else {
            return Err(Refused::OutOfMemory);
        };
        notify(
            &mut party.control,
            &mut self.registrar,
            MemberId(i as u32 + 1),
        )?;
        match stop(&mut party.node) {
            Ok(()) => Ok(()),
            Err(_) => unreachable!(),
        }
    }

    /// The member at a place reads the view of a version, where it may.
    fn act_refresh(&mut self, i: usize, version: u32) -> Result<Option<Replaced>, Refused>
        requires { MayAct self.old i }
        ensures judged { IsJudged (look_refused (newest_of (self.old).all).version
            (node_at (self.old).all i) version) result }
        ensures ok { IfOk result (λ replaced. LooksAt (view_at (self.old).all.views version) i
            (self.old).all (self.new).all (replaced_seen replaced)) }
        ensures keeps { OnOk result ((self.new).keeps ≡ (self.old).keeps) }
        ensures err { OnErr result (self.new ≡ self.old) }
    {
        if let Some(reason) = look_refusal(
            &self.members[i].node,
            self.registrar.view().version,
            version,
        ) {
            return Err(Refused::NotEnabled(reason));
        }
        let Some(view) = self.registrar.published(version) else {
            unreachable!()
        };
        let Ok(view) = view.copy() else {
            return Err(Refused::OutOfMemory);
        };
        let Ok(looked) = look(&mut self.members[i].node, view) else {
            return Err(Refused::OutOfMemory);
        };
        self.pending_deposit = looked.opened;
        Ok(looked.replaced)
    }

    /// The member at a place tells a client that what it asks isn't done, where that is so: nothing changes.
    fn act_refuse(&self, i: usize, event: &Event) -> Result<(), Refused>
        requires within { i < length (self.now).all.nodes }
        requires standing { StandSomewhere (self.now).all }
        ensures { IsJudged (own_refused (newest_of (self.now).all) (keeps_at (self.now).keeps i) (kind_of event.now)
            (node_at (self.now).all i)) result }
    {
        match own_refusal(self.registrar.view(), &self.members[i], event) {
            Some(reason) => Err(Refused::NotEnabled(reason)),
            None => Ok(()),
        }
    }

    /// The member at a place has the view changed, where it may.
    fn act_change(
        &mut self,
        credit: CreditSpec,
        i: usize,
        change: ViewChange,
    ) -> Result<Option<Replaced>, Refused>
        requires may { MayAct self.old i }
        requires credit { HasCredit credit (node_at (self.old).all i).held }
        ensures judged { IsJudged (act_refused (Changes change) (keeps_at (self.old).keeps i) i (self.old).all) result }
        ensures ok { IfOk result (λ replaced. Acts (Changes change) (keeps_at (self.old).keeps i) i
            (marked_in (Changes change) (self.old).all)
            (self.old).all (self.new).all (replaced_seen replaced)) }
        ensures keeps { OnOk result ((self.new).keeps
            ≡ all_kept_after (Changes change) i (self.old).all (self.old).keeps) }
        ensures err { OnErr result (self.new ≡ self.old) }
    {
        match change {
            ViewChange::Mark(dead) => self.act_mark(i, &dead),
            ViewChange::Erase(origin) => self.act_erase(i, &origin),
            ViewChange::Admit(name) => self.act_admit(credit, i, &name),
            ViewChange::Register => self.act_register(i),
        }
    }

    /// The member at a place has the one of a name marked dead by the registrar, where it may.
    fn act_mark(&mut self, i: usize, dead: &Name) -> Result<Option<Replaced>, Refused>
        requires { MayAct self.old i }
        ensures judged { IsJudged (mark_refused (office_of (self.old).all) (node_at (self.old).all i)
            (id_named (self.old).all dead.now)) result }
        ensures keeps { OnOk result ((self.new).keeps ≡ (self.old).keeps) }
        ensures ok { IfOk result (λ replaced. Acts (Changes (ViewChange.Mark dead.now)) (keeps_at (self.old).keeps i) i
            (marked_in (Changes (ViewChange.Mark dead.now)) (self.old).all) (self.old).all (self.new).all
            (replaced_seen replaced)) }
        ensures err { OnErr result (self.new ≡ self.old) }
    {
        let Some(id) = self.id_named(dead) else {
            return Err(Refused::NotEnabled(unknown(&self.members[i].node)));
        };
        self.act_ask(i, Ask::Mark(id))
    }

    /// It has the one of a name erased, likewise.
    fn act_erase(&mut self, i: usize, origin: &Name) -> Result<Option<Replaced>, Refused>
        requires { MayAct self.old i }
        ensures judged { IsJudged (erase_refused (office_of (self.old).all) (node_at (self.old).all i)
            (id_named (self.old).all origin.now)) result }
        ensures keeps { OnOk result ((self.new).keeps ≡ (self.old).keeps) }
        ensures ok { IfOk result (λ replaced. Acts (Changes (ViewChange.Erase origin.now)) (keeps_at (self.old).keeps i) i
            (marked_in (Changes (ViewChange.Erase origin.now)) (self.old).all) (self.old).all (self.new).all
            (replaced_seen replaced)) }
        ensures err { OnErr result (self.new ≡ self.old) }
    {
        let Some(id) = self.id_named(origin) else {
            return Err(Refused::NotEnabled(unknown(&self.members[i].node)));
        };
        self.act_ask(i, Ask::Erase(id))
    }

    /// It has itself registered as synchronised, where it may.
    fn act_register(&mut self, i: usize) -> Result<Option<Replaced>, Refused>
        requires { MayAct self.old i }
        ensures judged { IsJudged (synced_refused (office_of (self.old).all) (keeps_at (self.old).keeps i)
            (node_at (self.old).all i)) result }
        ensures keeps { OnOk result ((self.new).keeps ≡ (self.old).keeps) }
        ensures ok { IfOk result (λ replaced. Acts (Changes ViewChange.Register) (keeps_at (self.old).keeps i) i
            (marked_in (Changes ViewChange.Register) (self.old).all) (self.old).all (self.new).all
            (replaced_seen replaced)) }
        ensures err { OnErr result (self.new ≡ self.old) }
    {
        let missing = self.members[i].mirror.missing();
        self.act_ask(i, Ask::Register { missing })
    }

    /// The member at a place asks the registrar to make a view, and has it, where it may.
    fn act_ask(&mut self, i: usize, what: Ask) -> Result<Option<Replaced>, Refused>
        requires makes { makes_view what ≡ true }
        requires may { MayAct self.old i }
        ensures judged { IsJudged (ask_refused (office_of (self.old).all) (node_at (self.old).all i) what) result }
        ensures keeps { OnOk result ((self.new).keeps ≡ (self.old).keeps) }
        ensures ok { IfOk result (λ replaced. LooksAt (view_for (office_of (self.old).all) (i + 1) what) i
            (viewing (view_for (office_of (self.old).all) (i + 1) what) (self.old).all) (self.new).all
            (replaced_seen replaced)) }
        ensures err { OnErr result (self.new ≡ self.old) }
    {
        let party = &mut self.members[i];
        match ask(
            &mut party.node,
            &mut party.control,
            &mut self.registrar,
            what,
        ) {
            Ok(looked) => {
                self.pending_deposit = looked.opened;
                Ok(looked.replaced)
            }
            Err(refused) => Err(refused),
        }
    }
}
