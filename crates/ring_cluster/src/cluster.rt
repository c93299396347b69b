//! The cluster.
ghost use Rattle.std.specs.Prelude.{◌≡◌, ℕ, ◌<◌, ◌∷◌, ◌++◌, [], List, IfOk, vec_len, vec_capacity};

use crate::agenda::Agendas;
use crate::clients::{client_of, refuses};
use crate::driver::{drain, round};
use crate::numbering::Rounds;
use crate::published::told_of;
use confirm_book::Book;
use group_view::View;
use queue_mirror::Mirror;
use ring_io::Gate;
use ring_names::{Body, CreditSpec, MemberId, Name, OutOfMemory, Reason};
use ring_parties::{Node, Parties, Round};
use ring_rules::{Client, Event, LinkStep, Phase, Refused};
use ring_script::Command;
use std::alloc::Global;
use std::marker::Model;
use std::thread::Threads;

/// How many rounds a settling has at most before its drain.
const MOST_ROUNDS: u32 = 64;

/// How many turns each member has in a round of a settling.
const TURNS: u32 = 16;

/// From how many members on a round has four threads in place of two: a thread costs some 20 to 30 microseconds, a turn
/// about one.
const MANY_MEMBERS: usize = 32;

/// The members of a ring over ring pairs with what each has still to do, the registrar, and the journal of what has
/// happened among them. It stands for the nodes on which the processes of `gm` run, and for the registry in which
/// they keep their group.
#[derive(Drop)]
pub struct Cluster {
    alloc: Global,
    credit: CreditSpec,
    names: Vec<Name>,
    parties: Parties,
    agendas: Agendas,
    journal: Vec<Event>,
    rounds: Rounds,
    given: Vec<Command>,
}

impl Model for Cluster {
    ghost use Rattle.ring_cluster.specs.Seen.{Seen};

    ghost Value = { Seen };

    ghost use Rattle.ring_cluster.specs.Kept.{seen_of, IsStanding};

    ghost view = { seen_of };

    ghost invariant = { IsStanding };
}

impl Cluster {
    ghost use Rattle.std.specs.Prelude.{◌≡◌, ◌↔◌, ◌≢◌, ◌⊎◌, ℕ, ◌+◌, ◌-◌, ◌<◌, ◌≤◌, ◌^◌, ◌∷◌, ◌++◌, [], List, true};
    ghost use Rattle.std.specs.Prelude.{false, Some, None, Err, IsSome, is_some, MatchOption, IfSome, IfOk, IfErr};
    ghost use Rattle.std.specs.Prelude.{OnOk, OnErr, length, map, not, drop};
    ghost use Rattle.ring_names.specs.declared.reason.Reason.{Reason};
    ghost use Rattle.ring_script.specs.declared.command.Command.{Command};
    ghost use Rattle.ring_script.specs.declared.command.Command.TheVariants as command;
    ghost use Rattle.group_view.specs.Change.{AreOpeningNames, most_entries};
    ghost use Rattle.ring_rules.specs.declared.event.Event.{Event};
    ghost use Rattle.ring_rules.specs.declared.event.Event.TheVariants as event;
    ghost use Rattle.ring_rules.specs.Machine.{member_at, row_at, view_in, newest, runs};
    ghost use Rattle.ring_rules.specs.Step.{size};
    ghost use Rattle.ring_rules.specs.Quiet.{IsQuiet};
    ghost use Rattle.ring_rules.specs.Refusal.{is_empty};
    ghost use Rattle.ring_rules.specs.Event.{asked_of, event_of, refusal};
    ghost use Rattle.gm_member.specs.Stands.{held_in, incoming_in};
    ghost use Rattle.gm_member.specs.Shown.{held_of, ends_of};
    ghost use Rattle.ring_rules.specs.Idle.{IsIdle};
    ghost use Rattle.ring_cluster.specs.Holds.{HoldsOf, ShowsOf};
    ghost use Rattle.confirm_book.specs.Book.{IsBookOf};
    ghost use Rattle.ring_parties.specs.Parties.{ends_seen};
    ghost use Rattle.ring_parties.specs.Keeps.{kinds_of, round_of};
    ghost use Rattle.ring_parties.specs.States.{IsEventIn};
    ghost use Rattle.ring_cluster.specs.Published.{told_in, told_of_each};
    ghost use Rattle.ring_cluster.specs.Seen.{IsGoing, SameButOwed, MayHandOver, state_of};
    ghost use Rattle.ring_cluster.specs.Seen.{IsStepped, opening_seen, with_event, owing, collected_at};
    ghost use Rattle.ring_rules.specs.declared.event.Client.{Client};
    ghost use Rattle.ring_cluster.specs.Plays.{PlaysSoFar, Plays, IsOfMember, commanded, passes};
    ghost use Rattle.ring_cluster.specs.Agendas.{Plan, IsAskedOf, IsForNoCopy, names_of, place_among, with_tasks, with_task, with_asked};
    ghost use Rattle.ring_cluster.specs.Plays.{performed, answer_to, agenda_of, GoesOn, HasGoneOn};
    ghost use Rattle.ring_cluster.specs.Plays.{HasBegun, HeadsAre, LeavesAgenda, AgendasAreEmpty};
    ghost use Rattle.ring_cluster.specs.Handed.{handing as is_handed, heir as the_heir};
    ghost use Rattle.ring_cluster.specs.Turns.{MayStep, TakesRound, EachDoesAtMost, IsMemberAt, TakesTurns};
    ghost use Rattle.ring_cluster.specs.Agendas.{struck_off};
    ghost use Rattle.ring_cluster.specs.Published.{names_in};
    ghost use Rattle.std.specs.List.{All};
    ghost use Rattle.ring_cluster.specs.Rounds.{more_rounds, GivesNumbers};

    /// The cluster of a ring that has just opened with these members, in ring order: nobody has anything
    /// to do.
    pub fn opening(
        alloc: Global,
        members: &[Name],
        credit: CreditSpec,
    ) -> Result<Cluster, OutOfMemory>
        requires { AreOpeningNames members.now }
        ensures opens { IfOk result (λ c. c ≡ opening_seen credit members.now) }
        ensures plays { IfOk result PlaysSoFar }
    {
        let cluster = Cluster::founding(alloc, members, credit)?;
        Ok(cluster)
    }

    fn founding(alloc: Global, members: &[Name], credit: CreditSpec) -> Result<Cluster, OutOfMemory>
        requires { AreOpeningNames members.now }
        ensures { IfOk result (λ c. c ≡ opening_seen credit members.now) }
    {
        let parties = Parties::opening(alloc, members, credit)?;
        let names = copied_names(alloc, members)?;
        Ok(Cluster {
            alloc,
            credit,
            names,
            parties,
            agendas: Agendas::none(alloc),
            journal: Vec::new(alloc),
            rounds: Rounds::none(),
            given: Vec::new(alloc),
        })
    }

    /// A law of every cluster: its journal is a run of the ring from its opening.
    pub fn is_going(&self)
        ensures { IsGoing self.now }
    {
        let _ = self.rounds.count();
    }

    /// A command of a member joins the end of its agenda, also of one that is still to join: its commands wait until
    /// it has its state, and are never done where it never joins. Want of memory hands the command back. The caller
    /// gives a command of a member, not of the whole ring.
    pub fn command(&mut self, command: Command) -> Result<(), (Command, OutOfMemory)>
        requires { IsOfMember command }
        ensures ok { OnOk result (self.new ≡ commanded self.old command) }
        ensures plays { OnOk result (PlaysSoFar self.old → PlaysSoFar self.new) }
        ensures err { OnErr result (self.new ≡ self.old) }
        ensures back { IfErr result (λ e. e.0 ≡ command) }
    {
        self.is_going();
        self.take_command(command)?;
        Ok(())
    }

    fn take_command(&mut self, command: Command) -> Result<(), (Command, OutOfMemory)>
        requires { IsOfMember command }
        ensures ok { OnOk result (self.new ≡ commanded self.old command) }
        ensures err { OnErr result (self.new ≡ self.old) }
        ensures back { IfErr result (λ e. e.0 ≡ command) }
    {
        let Ok(task) = client_of(&command) else {
            return Err((command, OutOfMemory));
        };
        if self.given.reserve(1).is_err() {
            return Err((command, OutOfMemory));
        }
        if self.agendas.give(self.alloc, task).is_err() {
            return Err((command, OutOfMemory));
        }
        push_reserved(&mut self.given, command);
        Ok(())
    }

    /// The one event, where it is enabled; after it nothing is owed. After a refusal all stands as it stood. Before an
    /// event that isn't refused the acting member collects the links that wait for it, and what is owed is handed over.
    /// For want of memory no event happens, though some of that may have been done; or the event has happened, and the
    /// cluster owes the registrar a link. A member that is admitted is there at once, since it was got ready before.
    pub fn step(&mut self, event: &Event) -> Result<(), Refused>
        ensures enabled { OnOk result (refusal (state_of self.old) event.now ≡ None) }
        ensures ok { OnOk result (IsStepped self.old event.now false self.new) }
        ensures refused { (r : Reason) → refusal (state_of self.old) event.now ≡ Some r
            → (result ≡ Err (Refused.NotEnabled r)) × (self.new ≡ self.old) }
        ensures reason { IfErr result (λ e. (r : Reason) → e ≡ Refused.NotEnabled r
            → refusal (state_of self.old) event.now ≡ Some r) }
        ensures err { IfErr result (λ e. (self.new ≡ self.old)
            ⊎ ((e ≡ Refused.OutOfMemory) × (refusal (state_of self.old) event.now ≡ None)
            × (MayHandOver self.old self.new ⊎ IsStepped self.old event.now true self.new))) }
    {
        let Some(place) = self.place_of(event) else {
            return Err(Refused::NotEnabled(Reason::UnknownMember));
        };
        self.happen(place, event)?;
        self.number_round();
        match self.deliver() {
            Ok(()) => Ok(()),
            Err(OutOfMemory) => Err(Refused::OutOfMemory),
        }
    }

    /// The place of the member of an event, where the ring has it.
    fn place_of(&self, event: &Event) -> Option<usize>
        ensures { MatchOption result (refusal (state_of self.now) event.now ≡ Some Reason.UnknownMember)
            (λ place. IsEventIn (state_of self.now) place event.now) }
    {
        self.is_going();
        self.parties.place_named(event.by())
    }

    /// The one event, of the member at a place, as a part of a round.
    pub(crate) fn happen(&mut self, place: usize, event: &Event) -> Result<(), Refused>
        requires { IsEventIn (state_of self.old) place event.now }
        ensures enabled { OnOk result (refusal (state_of self.old) event.now ≡ None) }
        ensures ok { OnOk result (SameButOwed (with_event self.old event.now) self.new) }
        ensures refused { (r : Reason) → refusal (state_of self.old) event.now ≡ Some r
            → (result ≡ Err (Refused.NotEnabled r)) × (self.new ≡ self.old) }
        ensures reason { IfErr result (λ e. (r : Reason) → e ≡ Refused.NotEnabled r
            → refusal (state_of self.old) event.now ≡ Some r) }
        ensures err { OnErr result (MayHandOver self.old self.new) }
    {
        self.parties
            .step(self.credit, &self.names, &mut self.journal, place, event)
    }

    /// Whether the member at a place may do a step on its links.
    pub(crate) fn may_step(&self, place: usize, step: LinkStep) -> bool
        requires { place + 1 < size (state_of self.now) }
        ensures may { result ≡ true → MayStep (state_of self.now) (place + 1) step }
        ensures may_not { result ≡ false → MayStep (state_of self.now) (place + 1) step → ⊥ }
    {
        self.is_going();
        let refusal = self.parties.step_refusal(place, step);
        refusal.is_none()
    }

    /// Whether the member at a place may have the one of a name marked dead.
    pub(crate) fn may_mark(&self, place: usize, dead: &Name) -> bool
        requires { place + 1 < size (state_of self.now) }
        ensures may { result ≡ true
            → refusal (state_of self.now)
            (event.Mark (member_at (state_of self.now) (place + 1)).name dead.now) ≡ None }
        ensures may_not { result ≡ false
            → refusal (state_of self.now)
            (event.Mark (member_at (state_of self.now) (place + 1)).name dead.now) ≢ None }
    {
        self.is_going();
        let refusal = self.parties.mark_refusal(place, dead);
        refusal.is_none()
    }

    /// Whether the member at a place may have the one of a name erased.
    pub(crate) fn may_erase(&self, place: usize, origin: &Name) -> bool
        requires { place + 1 < size (state_of self.now) }
        ensures may { result ≡ true → refusal (state_of self.now)
            (event.Erase (member_at (state_of self.now) (place + 1)).name origin.now) ≡ None }
        ensures may_not { result ≡ false → refusal (state_of self.now)
            (event.Erase (member_at (state_of self.now) (place + 1)).name origin.now) ≢ None }
    {
        self.is_going();
        let refusal = self.parties.erase_refusal(place, origin);
        refusal.is_none()
    }

    /// Hands over what is owed to the registrar.
    pub(crate) fn deliver(&mut self) -> Result<(), OutOfMemory>
        ensures ok { OnOk result (self.new ≡ owing false self.old) }
        ensures err { OnErr result ((self.new ≡ self.old) × ((self.old).owes ≡ true)) }
    {
        self.parties.hand_over()
    }

    /// The member at a place, which has this name, does the first of its tasks, or refuses it where the ring does:
    /// whether it had one, and what refuses that doesn't pass. A join that it refuses since it has stopped is handed on.
    #[tactic(auto, using(crate::proofs::deposits::Owed::but_refl, crate::proofs::deposits::Owed::but_handed))]
    pub(crate) fn perform(&mut self, place: usize, name: &Name) -> Result<bool, OutOfMemory>
        requires { IsMemberAt self.old place name.now }
        ensures done { IfOk result (λ b. b ≡ true → (t : Client) × (ts : List Client)
            × (agenda_of self.old name.now ≡ t ∷ ts) × IsAskedOf name.now t
            × (refusal (state_of self.old) (answer_to (state_of self.old) t) ≡ None)
            × SameButOwed (performed self.old name.now (answer_to (state_of self.old) t) ts) self.new) }
        ensures none { IfOk result (λ b. b ≡ false → SameButOwed self.old self.new
            × LeavesAgenda self.old name.now) }
        ensures err { OnErr result (SameButOwed self.old self.new) }
    {
        self.is_going();
        let Some(event) = self.next_event(place, name)? else {
            return Ok(false);
        };
        self.answer(place, &event)?;
        self.strike_off(name);
        Ok(true)
    }

    /// A member answers a client: this event happens, and what it hands on joins its agenda.
    fn answer(&mut self, place: usize, event: &Event) -> Result<(), OutOfMemory>
        requires at { IsEventIn (state_of self.old) place event.now }
        requires enabled { refusal (state_of self.old) event.now ≡ None }
        ensures ok { OnOk result (SameButOwed (record (with_event self.old event.now) {
          agendas = with_asked (self.old).agendas (is_handed (state_of self.old) event.now);
        }) self.new) }
        ensures err { OnErr result (SameButOwed self.old self.new) }
    {
        let Some(join) = self.handing(event) else {
            self.happen_enabled(place, event)?;
            return Ok(());
        };
        let heir = *join.by();
        let had_one = self.agendas.has(&heir);
        self.give(join)?;
        match self.happen_enabled(place, event) {
            Ok(()) => Ok(()),
            Err(OutOfMemory) => {
                self.take_back(&heir, had_one);
                Err(OutOfMemory)
            }
        }
    }

    /// An event happens that is enabled.
    #[tactic(auto, using(crate::proofs::deposits::Owed::but_handed))]
    fn happen_enabled(&mut self, place: usize, event: &Event) -> Result<(), OutOfMemory>
        requires at { IsEventIn (state_of self.old) place event.now }
        requires enabled { refusal (state_of self.old) event.now ≡ None }
        ensures ok { OnOk result (SameButOwed (with_event self.old event.now) self.new) }
        ensures err { OnErr result (SameButOwed self.old self.new) }
    {
        match self.happen(place, event) {
            Ok(()) => Ok(()),
            Err(Refused::NotEnabled(_)) => unreachable!(),
            Err(Refused::OutOfMemory) => Err(OutOfMemory),
        }
    }

    /// A task joins the end of the agenda of its member.
    fn give(&mut self, task: Client) -> Result<(), OutOfMemory>
        requires { IsForNoCopy task }
        ensures ok { OnOk result (self.new ≡ record self.old { agendas = with_task (self.old).agendas task }) }
        ensures err { OnErr result (self.new ≡ self.old) }
    {
        self.agendas.give(self.alloc, task)
    }

    /// The task is taken back that was given last, to the agenda of that name, which it had before or not.
    fn take_back(&mut self, name: &Name, had_one: bool)
        ensures { (plans : List Plan) (t : Client) → (self.old).agendas ≡ with_task plans t → asked_of t ≡ name.now
            → had_one ≡ is_some (place_among (names_of plans) name.now)
            → self.new ≡ record self.old { agendas = plans } }
    {
        self.agendas.take_back(name, had_one);
    }

    /// The join that an event hands on, as it is asked of the heir.
    fn handing(&self, event: &Event) -> Option<Client>
        ensures handed { result ≡ is_handed (state_of self.now) event.now }
        ensures no_copy { IfSome result IsForNoCopy }
    {
        match event {
            Event::Refuse {
                code,
                inner: Client::Admit { by: _, name },
            } if *code == Reason::Stopped.code() => {
                let heir = self.heir()?;
                Some(Client::Admit {
                    by: heir,
                    name: *name,
                })
            }
            _ => None,
        }
    }

    /// The running member of least id.
    fn heir(&self) -> Option<Name>
        ensures { result ≡ the_heir (state_of self.now) }
    {
        self.is_going();
        let count = self.count();
        for place in 0..count {
            if self.runs(MemberId(place as u32 + 1)) {
                return Some(self.name_at(place));
            }
        }
        None
    }

    /// The event by which the member at a place does or refuses the first of its tasks, where it has one, and what refuses
    /// that doesn't pass.
    fn next_event(&self, place: usize, name: &Name) -> Result<Option<Event>, OutOfMemory>
        requires { IsMemberAt self.now place name.now }
        ensures { IfOk result (λ next. MatchOption next (LeavesAgenda self.now name.now)
            (λ event. (t : Client) × (ts : List Client) × (agenda_of self.now name.now ≡ t ∷ ts) × IsAskedOf name.now t
            × (event ≡ answer_to (state_of self.now) t) × (refusal (state_of self.now) event ≡ None))) }
    {
        let Some(task) = self.agendas.next_task(name) else {
            return Ok(None);
        };
        self.answer_to(place, task)
    }

    /// The event by which the member at a place, of which a task is asked, does or refuses it: none where what refuses it
    /// will pass, as the member waits for its state, or hasn't started as a master.
    fn answer_to(&self, place: usize, task: &Client) -> Result<Option<Event>, OutOfMemory>
        requires { IsMemberAt self.now place (asked_of task.now) }
        ensures { IfOk result (λ answer. MatchOption answer
            (passes (refusal (state_of self.now) (event_of task.now)) ≡ true)
            (λ event. (event ≡ answer_to (state_of self.now) task.now) × (refusal (state_of self.now) event ≡ None))) }
    {
        self.is_going();
        let event = task.event()?;
        match self.refusal(place, &event) {
            None => Ok(Some(event)),
            Some(reason) => refuses(task, reason),
        }
    }

    /// Why the ring refuses an event of the member at a place.
    pub(crate) fn refusal(&self, place: usize, event: &Event) -> Option<Reason>
        requires { IsEventIn (state_of self.now) place event.now }
        ensures { result ≡ refusal (state_of self.now) event.now }
    {
        self.is_going();
        self.parties.refusal(place, event)
    }

    /// Whether the member of an id runs.
    pub(crate) fn runs(&self, id: MemberId) -> bool
        requires { (1 ≤ id.0) × (id.0 < size (state_of self.now)) }
        ensures { result ≡ runs (state_of self.now) id.0 }
    {
        let Some(member) = self.member(id) else {
            unreachable!()
        };
        matches!(member.phase(), Phase::Waiting | Phase::Up)
    }

    /// Whether the member of an id is up.
    pub(crate) fn is_up(&self, id: MemberId) -> bool
        requires { (1 ≤ id.0) × (id.0 < size (state_of self.now)) }
        ensures up { result ≡ true → (member_at (state_of self.now) id.0).phase ≡ Phase.Up }
        ensures others { result ≡ false → (member_at (state_of self.now) id.0).phase ≢ Phase.Up }
    {
        let Some(member) = self.member(id) else {
            unreachable!()
        };
        match member.phase() {
            Phase::Up => true,
            Phase::Waiting | Phase::Stopped => false,
        }
    }

    /// Whether the member of that name has a task.
    pub(crate) fn has_task(&self, name: &Name) -> bool
        ensures { result ≡ not (is_empty (agenda_of self.now name.now)) }
    {
        self.agendas.next_task(name).is_some()
    }

    /// How often the list of members is cut into halves that go side by side in a round.
    fn cuts(&self) -> u32 {
        match self.count() {
            0 | 1 => 0,
            2..MANY_MEMBERS => 1,
            _ => 2,
        }
    }

    /// The same in a round of a settling, which begins no thread where at most one member has a task.
    fn settling_cuts(&self) -> u32 {
        if self.agendas.are_several() {
            self.cuts()
        } else {
            0
        }
    }

    /// What members can do by themselves, side by side: each takes at most so many turns, and what it has answered of its
    /// tasks is struck off. Want of memory leaves what has happened.
    pub(crate) fn side_by_side<T: Threads + Sync, G: Gate>(
        &mut self,
        threads: &T,
        gate: &G,
        turns: u32,
        cuts: u32,
    ) -> Result<(), OutOfMemory>
        ensures round { TakesRound self.old self.new }
        ensures few { EachDoesAtMost turns self.old self.new }
    {
        self.is_going();
        let names = self.parties.names(self.alloc)?;
        let mut done = vec![in self.alloc; 0; names.len()]?;
        let round = Round {
            number: self.rounds.count(),
            turns,
            cuts,
        };
        let took = self.take_turns(threads, gate, round, &names, &mut done);
        self.strike_off_done(&names, &done);
        self.is_going();
        took
    }

    /// The members, by places of these names, take at most so many turns each, side by side: `done` tells of how many of
    /// its tasks each has answered, which are still on its agenda. Want of memory leaves what has happened.
    fn take_turns<T: Threads + Sync, G: Gate>(
        &mut self,
        threads: &T,
        gate: &G,
        round: Round,
        names: &[Name],
        done: &mut [usize],
    ) -> Result<(), OutOfMemory>
        requires names { names.now ≡ names_in (state_of self.old) }
        requires done { length done.old ≡ length names.now }
        requires none { All (λ n. n ≡ 0) done.old }
        ensures taken { TakesTurns round.turns names.now done.new self.old self.new }
        ensures done { length done.new ≡ length names.now }
    {
        let fronts = self.agendas.fronts(self.alloc, names)?;
        self.parties.take_turns(
            threads,
            gate,
            self.credit,
            &self.names,
            &mut self.journal,
            round,
            &fronts,
            done,
        )
    }

    /// So many tasks of each member are done, by places of these names.
    fn strike_off_done(&mut self, names: &[Name], done: &[usize])
        requires { length done.now ≡ length names.now }
        ensures { self.new ≡ record self.old {
          agendas = struck_off (length names.now) names.now done.now (self.old).agendas;
        } }
    {
        self.agendas.strike_off_each(names, done);
    }

    /// The first task of the member of that name is done.
    fn strike_off(&mut self, name: &Name)
        ensures { self.new ≡ record self.old {
          agendas = with_tasks (self.old).agendas name.now (drop 1 (agenda_of self.old name.now));
        } }
    {
        self.agendas.strike_off(name);
    }

    /// The version that the view of the member of an id had when it last told how many messages there are.
    pub(crate) fn told(&self, id: MemberId) -> u32
        requires { (1 ≤ id.0) × (id.0 < size (state_of self.now)) }
        ensures { result ≡ (member_at (state_of self.now) id.0).told }
    {
        self.parties.told(id)
    }

    /// The name of the member at a place.
    pub(crate) fn name_at(&self, place: usize) -> Name
        requires { place + 1 < size (state_of self.now) }
        ensures { result ≡ (member_at (state_of self.now) (place + 1)).name }
    {
        self.is_going();
        let Some(member) = self.member(MemberId(place as u32 + 1)) else {
            unreachable!()
        };
        *member.name()
    }

    /// How many members there are.
    pub(crate) fn count(&self) -> usize
        ensures { result + 1 ≡ size (state_of self.now) }
    {
        self.is_going();
        self.parties.count()
    }

    /// How many events have happened.
    pub(crate) fn happened(&self) -> usize
        ensures { result ≡ length (self.now).events }
    {
        self.journal.len()
    }

    /// One round: each member that runs or has a task takes at least one and at most so many turns, which begin with the
    /// head of its agenda, where it has one: it does that, or refuses it where the ring does; a new master begins with its
    /// start. All turns but the last they take side by side on threads, and do in them what each can by itself, on the links
    /// that it has; in the last, one member after another, each may ask of the registrar too. Where a thread can't be
    /// started its part is done by the caller. One that waits for its state leaves its agenda, but stops at once where that
    /// is to be done next. A join that a member refuses since it has stopped goes to the end of the agenda of the running
    /// member of least id. Who joins in a round takes turns from the next one on. After it nothing is owed. Before and after
    /// each turn the gate is passed. Want of memory leaves what has happened.
    pub fn go<T: Threads + Sync, G: Gate>(
        &mut self,
        threads: &T,
        turns: u32,
        gate: &G,
    ) -> Result<(), OutOfMemory>
        requires { (1 ≤ turns) × (turns ≤ 1000) }
        ensures heads { OnOk result ((more : List Event)
            × GoesOn self.old self.new more × HeadsAre self.old more) }
        ensures goes { HasGoneOn self.old self.new }
        ensures few { EachDoesAtMost turns self.old self.new }
        ensures given { OnOk result
            ((self.new).given ≡ (self.old).given ++ command.Go turns ∷ []) }
        ensures not_given { OnErr result ((self.new).given ≡ (self.old).given) }
        ensures rounds { (self.new).rounds ≡ more_rounds 1 (self.old).rounds }
        ensures delivered { OnOk result ((self.new).owes ≡ false) }
        ensures plays { PlaysSoFar self.old → PlaysSoFar self.new }
    {
        self.number_round();
        self.note(Command::Go { turns })?;
        match self.take_round(threads, turns, gate) {
            Ok(()) => Ok(()),
            Err(OutOfMemory) => {
                self.forget_note();
                Err(OutOfMemory)
            }
        }
    }

    /// A round, after which nothing is owed.
    fn take_round<T: Threads + Sync, G: Gate>(
        &mut self,
        threads: &T,
        turns: u32,
        gate: &G,
    ) -> Result<(), OutOfMemory>
        requires { 1 ≤ turns }
        ensures round { TakesRound self.old self.new }
        ensures few { EachDoesAtMost turns self.old self.new }
        ensures begun { OnOk result ((i : ℕ) (name : List ℕ) → IsMemberAt self.old i name
            → HasBegun i name self.old self.new) }
        ensures delivered { OnOk result ((self.new).owes ≡ false) }
    {
        let cuts = self.cuts();
        round(self, threads, turns, cuts, gate)?;
        self.deliver()?;
        Ok(())
    }

    /// Rounds of 16 turns until one does nothing, 64 at most, and then a drain. A round in which at least two members have a
    /// task begins on threads, as that of `go`; another runs on the caller's, and so does the drain: the ring works and repairs itself, and
    /// each member does all of its agenda, or refuses it, who joins too, until no member has anything left to do. Then
    /// it is quiet: where anybody runs, nobody waits, and who has died is erased; a running master has started, and
    /// everybody knows what its mirror lacks. Each round has a number, and so has the drain. After it nothing is owed.
    /// Want of memory leaves what has happened.
    pub fn settle<T: Threads + Sync, G: Gate>(
        &mut self,
        threads: &T,
        gate: &G,
    ) -> Result<(), OutOfMemory>
        ensures goes { HasGoneOn self.old self.new }
        ensures empty { OnOk result (AgendasAreEmpty self.new) }
        ensures idle { OnOk result (IsIdle (state_of self.new)) }
        ensures quiet { OnOk result (IsQuiet (state_of self.new)) }
        ensures given { OnOk result ((self.new).given ≡ (self.old).given ++ command.Settle ∷ []) }
        ensures not_given { OnErr result ((self.new).given ≡ (self.old).given) }
        ensures rounds { OnOk result (GivesNumbers 2 65 self.old self.new) }
        ensures rounds_begun { OnErr result (GivesNumbers 0 65 self.old self.new) }
        ensures delivered { OnOk result ((self.new).owes ≡ false) }
        ensures plays { PlaysSoFar self.old → PlaysSoFar self.new }
        ensures played { OnOk result (PlaysSoFar self.old
            → Plays (self.new).credit (self.new).names (self.new).events (self.new).given) }
    {
        self.is_going();
        self.note(Command::Settle)?;
        match self.work_out(threads, gate) {
            Ok(()) => Ok(()),
            Err(OutOfMemory) => {
                self.forget_note();
                Err(OutOfMemory)
            }
        }
    }

    /// The rounds of a settling, and its drain.
    fn work_out<T: Threads + Sync, G: Gate>(
        &mut self,
        threads: &T,
        gate: &G,
    ) -> Result<(), OutOfMemory>
        ensures goes { HasGoneOn self.old self.new }
        ensures given { (self.new).given ≡ (self.old).given }
        ensures empty { OnOk result (AgendasAreEmpty self.new) }
        ensures idle { OnOk result (IsIdle (state_of self.new)) }
        ensures quiet { OnOk result (IsQuiet (state_of self.new)) }
        ensures rounds { OnOk result (GivesNumbers 2 65 self.old self.new) }
        ensures rounds_begun { OnErr result (GivesNumbers 1 65 self.old self.new) }
        ensures delivered { OnOk result ((self.new).owes ≡ false) }
        ensures going { OnOk result (IsGoing self.new) }
    {
        self.work_rounds(threads, gate)?;
        self.number_round();
        drain(self)?;
        self.deliver()?;
        self.is_going();
        Ok(())
    }

    /// The rounds of a settling.
    fn work_rounds<T: Threads + Sync, G: Gate>(
        &mut self,
        threads: &T,
        gate: &G,
    ) -> Result<(), OutOfMemory>
        ensures goes { HasGoneOn self.old self.new }
        ensures given { (self.new).given ≡ (self.old).given }
        ensures rounds { GivesNumbers 1 64 self.old self.new }
    {
        self.is_going();
        for _round in 0..MOST_ROUNDS {
            let before = self.happened();
            self.number_round();
            let cuts = self.settling_cuts();
            round(self, threads, TURNS, cuts, gate)?;
            if self.happened() == before {
                return Ok(());
            }
        }
        Ok(())
    }

    /// Notes what was given.
    fn note(&mut self, command: Command) -> Result<(), OutOfMemory>
        ensures ok { OnOk result (self.new
            ≡ record self.old { given = (self.old).given ++ command ∷ [] }) }
        ensures err { OnErr result (self.new ≡ self.old) }
    {
        if self.given.push(command).is_err() {
            return Err(OutOfMemory);
        }
        Ok(())
    }

    /// Takes the last note back.
    fn forget_note(&mut self)
        ensures { (given : List Command) (last : Command) → (self.old).given ≡ given ++ last ∷ []
            → self.new ≡ record self.old { given = given } }
    {
        let _ = self.given.pop();
    }

    /// One more round is given a number.
    fn number_round(&mut self)
        ensures { self.new ≡ record self.old { rounds = more_rounds 1 (self.old).rounds } }
    {
        self.rounds.number_one();
    }

    /// How many members the ring has ever had, those that joined among them: their ids go from 1 to this number.
    pub fn members(&self) -> u32
        ensures value { result + 1 ≡ size (state_of self.now) }
        ensures few { result ≤ most_entries }
    {
        self.is_going();
        self.parties.count() as u32
    }

    /// The member of that id: it stands in the last state of the journal, but that of the links that wait for it only
    /// those stand at its door which it has collected, and the ends of its links show what stands on them there. None
    /// exactly where the ring has no such member.
    pub fn member(&self, id: MemberId) -> Option<&Node>
        ensures there { IsSome result ↔ ((1 ≤ id.0) × (id.0 < size (state_of self.now))) }
        ensures stands { IfSome result (λ m. held_of m.now
            ≡ record (held_in (state_of self.now) id.0) {
              door = map (incoming_in (state_of self.now)) (collected_at self.now id.0);
            }) }
        ensures holds { IfSome result (λ m. HoldsOf (state_of self.now) id.0 (held_of m.now)) }
        ensures shows { IfSome result (λ m. ShowsOf (state_of self.now) id.0
            (collected_at self.now id.0) (ends_seen (ends_of m.now))) }
    {
        self.parties.member(id)
    }

    /// The mirror of the member of that id, as it is in the last state of the journal. None exactly where the ring has no
    /// such member.
    pub fn mirror(&self, id: MemberId) -> Option<&Mirror>
        ensures there { IsSome result ↔ ((1 ≤ id.0) × (id.0 < size (state_of self.now))) }
        ensures stands { IfSome result (λ m. (m.now).mirror ≡ (member_at (state_of self.now) id.0).mirror) }
    {
        self.parties.mirror(id)
    }

    /// The book of the member of that id: of how many of its messages, by kind, it may tell its clients that they are
    /// confirmed. None exactly where the ring has no such member.
    pub fn book(&self, id: MemberId) -> Option<&Book>
        ensures there { IsSome result ↔ ((1 ≤ id.0) × (id.0 < size (state_of self.now))) }
        ensures stands { IfSome result (λ b. IsBookOf (kinds_of (state_of self.now) id.0)
            (round_of (state_of self.now) id.0) b.now) }
    {
        self.parties.book(id)
    }

    /// The newest view of the group, as the registrar has it.
    pub fn view(&self) -> &View
        ensures { result.now ≡ view_in (state_of self.now) (newest (state_of self.now)) }
    {
        self.parties.view()
    }

    /// Up to which number the member of the first id has received the messages of the second; of itself how many it
    /// has published.
    pub fn got(&self, id: MemberId, of: MemberId) -> u64
        requires within { (1 ≤ id.0) × (id.0 < size (state_of self.now)) }
        requires origin { (1 ≤ of.0) × (of.0 < size (state_of self.now)) }
        ensures { result ≡ (row_at (member_at (state_of self.now) id.0) of.0).got }
    {
        self.is_going();
        let Some(member) = self.member(id) else {
            unreachable!()
        };
        member.got(of)
    }

    /// Behind which number the member of the first id receives the messages of the second: 0 where it opened the ring,
    /// or waits still; where it joined, the number in its first packet.
    pub fn base(&self, id: MemberId, of: MemberId) -> u64
        requires within { (1 ≤ id.0) × (id.0 < size (state_of self.now)) }
        requires origin { (1 ≤ of.0) × (of.0 < size (state_of self.now)) }
        ensures { result ≡ (row_at (member_at (state_of self.now) id.0) of.0).base }
    {
        self.is_going();
        let Some(member) = self.member(id) else {
            unreachable!()
        };
        member.base(of)
    }

    /// Up to which number the messages of a member have come round to it. One that has stands in what each member that
    /// is up has heard, where it was published after that member's admission (`heard` of `IsLawful`); of a member that
    /// joined later nothing is said.
    pub fn confirmed(&self, id: MemberId) -> u64
        requires { (1 ≤ id.0) × (id.0 < size (state_of self.now)) }
        ensures { result ≡ (row_at (member_at (state_of self.now) id.0) id.0).forgot }
    {
        self.is_going();
        let Some(member) = self.member(id) else {
            unreachable!()
        };
        member.confirmed()
    }

    /// All that has happened, in order.
    pub fn events(&self) -> &[Event]
        ensures { result.now ≡ (self.now).events }
    {
        &self.journal
    }

    /// Of each member, by places, what its messages tell, in order: the body of each of its own, and nothing of an
    /// operation of its queue. The bodies are lent from the journal, which is read once.
    pub fn published(&self) -> Result<Vec<Vec<Option<&Body>>>, OutOfMemory>
        ensures { IfOk result (λ all. told_in all.items ≡ told_of_each (state_of self.now)) }
    {
        self.is_going();
        let names = self.parties.names(self.alloc)?;
        let all = told_of(self.alloc, &names, self.events())?;
        Ok(all)
    }

    /// A copy of the journal: all that has happened, in order.
    pub fn journal(&self) -> Result<Vec<Event>, OutOfMemory>
        ensures { IfOk result (λ events. events.items ≡ (self.now).events) }
    {
        let events = copied_events(self.alloc, &self.journal)?;
        Ok(events)
    }

    /// How many rounds were given a number: a step counts as one, and so does the drain of a settling.
    pub fn rounds(&self) -> u32
        ensures { result ≡ (self.now).rounds }
    {
        self.rounds.count()
    }
}

/// Names of one's own.
fn copied_names(alloc: Global, names: &[Name]) -> Result<Vec<Name>, OutOfMemory>
    ensures { IfOk result (λ v. v.items ≡ names.now) }
{
    let mut all = Vec::new(alloc);
    for name in names {
        if all.push(*name).is_err() {
            return Err(OutOfMemory);
        }
    }
    Ok(all)
}

/// Events of one's own.
fn copied_events(alloc: Global, events: &[Event]) -> Result<Vec<Event>, OutOfMemory>
    ensures { IfOk result (λ v. v.items ≡ events.now) }
{
    let mut all = Vec::with_capacity(alloc, events.len())?;
    for event in events {
        if all.push(event.copy()?).is_err() {
            return Err(OutOfMemory);
        }
    }
    Ok(all)
}

/// A push for which there is room.
fn push_reserved(given: &mut Vec<Command>, command: Command)
    requires { vec_len given.old < vec_capacity given.old }
    ensures { given.new.items ≡ given.old.items ++ command ∷ [] }
{
    if given.push(command).is_err() {
        unreachable!()
    }
}
