//! A round in which members take their turns side by side.
ghost use Rattle.std.specs.Prelude.{◌≡◌, ◌+◌, ◌*◌, ◌<◌, ◌≤◌, ◌^◌, ◌++◌, [], ℕ, List, length, map, OnOk, vec_len, vec_capacity};
ghost use Rattle.std.specs.List.{All};
ghost use Rattle.ring_rules.specs.declared.event.Event.{Event as AnEvent};
ghost use Rattle.ring_rules.specs.declared.phase.Phase.TheVariants.{Up};
ghost use Rattle.gm_member.specs.Shown.{held_of, spare_of};
ghost use Rattle.ring_parties.specs.declared.party.Party.{Party as AParty};
ghost use Rattle.ring_parties.specs.Parties.{Parties as AllParties, keeps_in};
ghost use Rattle.ring_parties.specs.Keeps.{KeepsStand};
ghost use Rattle.ring_parties.specs.States.{state};
ghost use Rattle.ring_parties.specs.Standing.{StandAfter};
ghost use Rattle.ring_parties.specs.Pairing.{IsAt, MayMeetPairs};
ghost use Rattle.ring_parties.specs.Turn.{MayTurn};
ghost use Rattle.ring_parties.specs.Turns.{AreAskedOf, HaveTaken};
ghost use Rattle.ring_parties.specs.Played.{AreTasks, HavePlayed, StandWithOthers, with_nodes, name_by};

use crate::pairing::{meet_pairs, rest_unheard};
use crate::parties::Parties;
use crate::party::Party;
use crate::turning::{begin_all, gather, take_all_turns};
use lamport_merge::Gathered;
use ring_io::Gate;
use ring_names::{CreditSpec, Name, OutOfMemory};
use ring_rules::{Client, Event};
use std::thread::Threads;

/// What a round is to be.
#[derive(Clone, Copy, PartialEq, Eq, Debug)]
pub struct Round {
    /// Its number, above those of the rounds before.
    pub number: u32,
    /// The most turns of each member.
    pub turns: u32,
    /// How often the list of members is cut into halves that go side by side: 0 for one thread, 1 for two, 2 for four.
    pub cuts: u32,
}

/// The most events of a journal.
const MOST_EVENTS: usize = (1 << 59) - 1;

/// Makes room in a journal for so many turns of each of so many members.
fn make_room(journal: &mut Vec<Event>, members: usize, turns: u32) -> Result<(), OutOfMemory>
    ensures same { journal.new.items ≡ journal.old.items }
    ensures room { OnOk result (vec_len journal.new + members * turns ≤ vec_capacity journal.new) }
    ensures few { OnOk result (length journal.new.items + members * turns < 2 ^ 59) }
{
    let Some(most) = members.checked_mul(turns as usize) else {
        return Err(OutOfMemory);
    };
    if most > MOST_EVENTS || journal.len() > MOST_EVENTS - most {
        return Err(OutOfMemory);
    }
    journal.reserve(most)?;
    Ok(())
}

/// Members take their turns between two meetings of the ends of their links. Who sends on a link from which nobody takes,
/// or takes from one on which nobody sends, rests.
fn meet_and_turn<R: Threads + Sync, G: Gate>(
    threads: &R,
    gate: &G,
    members: &mut [Party],
    round: Round,
    tasks: &[&[Client]],
    done: &mut [usize],
) -> Result<(), OutOfMemory>
    requires meet { MayMeetPairs members.old }
    requires may { (i : ℕ) (p : AParty) → IsAt members.old i p → (held_of p.node).phase ≡ Up → MayTurn p }
    requires room { (i : ℕ) (p : AParty) → IsAt members.old i p → round.turns ≤ spare_of p.node }
    requires own { AreTasks members.old (map (λ t. t.now) tasks.now) }
    requires tasks { length tasks.now ≡ length members.old }
    requires done { length done.old ≡ length members.old }
    requires none { All (λ n. n ≡ 0) done.old }
    ensures count { length done.new ≡ length done.old }
    ensures played { HavePlayed round.turns (map (λ t. t.now) tasks.now) done.new members.old members.new }
{
    meet_pairs(members);
    rest_unheard(members);
    let outcome = take_all_turns(threads, gate, round.cuts, tasks, round.turns, members, done);
    meet_pairs(members);
    outcome
}

/// Members play this round, for which there is room in the journal and for their logs; what they have done joins the
/// journal.
fn play<R: Threads + Sync, G: Gate>(
    threads: &R,
    gate: &G,
    members: &mut [Party],
    credit: CreditSpec,
    names: &[Name],
    journal: &mut Vec<Event>,
    mut logs: Gathered,
    round: Round,
    tasks: &[&[Client]],
    done: &mut [usize],
) -> Result<(), OutOfMemory>
    requires standing { StandWithOthers credit names.now journal.old.items members.old }
    requires keeps { KeepsStand (state credit names.now journal.old.items) (map keeps_in members.old) }
    requires tasks { length tasks.now ≡ length members.old }
    requires asked { AreAskedOf (map name_by members.old) (map (λ t. t.now) tasks.now) }
    requires done { length done.old ≡ length members.old }
    requires none { All (λ n. n ≡ 0) done.old }
    requires logs { (logs.logs ≡ []) × (length members.old ≤ logs.room) }
    requires room { vec_len journal.old + length members.old * round.turns ≤ vec_capacity journal.old }
    requires few { length journal.old.items + length members.old * round.turns < 2 ^ 59 }
    ensures standing { (rest : AllParties) → StandAfter credit names.now journal.old.items (with_nodes rest members.old)
        → StandAfter credit names.now journal.new.items (with_nodes rest members.new) }
    ensures keeps { KeepsStand (state credit names.now journal.new.items) (map keeps_in members.new) }
    ensures taken { (more : List AnEvent) × (journal.new.items ≡ journal.old.items ++ more)
        × HaveTaken round.turns (map name_by members.old) (map (λ t. t.now) tasks.now) done.new more }
    ensures names { map name_by members.new ≡ map name_by members.old }
{
    begin_all(members, round.number, round.turns)?;
    let outcome = meet_and_turn(threads, gate, members, round, tasks, done);
    gather(members, &mut logs);
    logs.merge_behind(journal);
    outcome
}

impl Parties {
    ghost use Rattle.std.specs.Prelude.{◌≡◌, ◌++◌, ◌≤◌, ◌<◌, List, length, map};
    ghost use Rattle.std.specs.List.{All};
    ghost use Rattle.ring_rules.specs.declared.event.Event.{Event as AnEvent};
    ghost use Rattle.ring_parties.specs.States.{state};
    ghost use Rattle.ring_parties.specs.Parties.{names_shown};
    ghost use Rattle.ring_parties.specs.Keeps.{KeepsStand};
    ghost use Rattle.ring_parties.specs.Standing.{StandAfter};
    ghost use Rattle.ring_parties.specs.Turns.{AreAskedOf, HaveTaken};

    /// Members take their turns side by side, on threads where the list is cut: each answers its tasks, the next one first,
    /// takes, gains and puts, on the links that it has; what it would have to ask of the registrar it leaves. Before and
    /// after each turn the gate is passed. Where a thread can't be started its part is done by the caller. What they have
    /// done joins the journal in one order, and `done` tells by places how many of its tasks each has answered. Want of
    /// memory leaves what has happened.
    pub fn take_turns<R: Threads + Sync, G: Gate>(
        &mut self,
        threads: &R,
        gate: &G,
        credit: CreditSpec,
        names: &[Name],
        journal: &mut Vec<Event>,
        round: Round,
        tasks: &[&[Client]],
        done: &mut [usize],
    ) -> Result<(), OutOfMemory>
        requires standing { StandAfter credit names.now journal.old.items (self.old).all }
        requires keeps { KeepsStand (state credit names.now journal.old.items) (self.old).keeps }
        requires tasks { length tasks.now ≡ length (self.old).all.nodes }
        requires asked { AreAskedOf (names_shown (self.old).all) (map (λ t. t.now) tasks.now) }
        requires done { length done.old ≡ length (self.old).all.nodes }
        requires none { All (λ n. n ≡ 0) done.old }
        ensures standing { StandAfter credit names.now journal.new.items (self.new).all }
        ensures keeps { KeepsStand (state credit names.now journal.new.items) (self.new).keeps }
        ensures taken { (more : List AnEvent) × (journal.new.items ≡ journal.old.items ++ more)
            × HaveTaken round.turns (names_shown (self.old).all) (map (λ t. t.now) tasks.now) done.new more }
        ensures names { names_shown (self.new).all ≡ names_shown (self.old).all }
        ensures owes { (self.new).owes ≡ (self.old).owes }
    {
        let count = self.members.len();
        make_room(journal, count, round.turns)?;
        let logs = Gathered::with_room(*journal.allocator(), count)?;
        play(
            threads,
            gate,
            &mut self.members,
            credit,
            names,
            journal,
            logs,
            round,
            tasks,
            done,
        )
    }
}
