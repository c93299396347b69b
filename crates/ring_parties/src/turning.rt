//! All members take their turns in a round.
ghost use Rattle.std.specs.Prelude.{◌≡◌, ◌≢◌, ◌≤◌, ◌++◌, ◌∷◌, [], ℕ, List, true, length, map, cond, slice_get, Some, OnOk, OnErr};
ghost use Rattle.std.specs.List.{All};
ghost use Rattle.std.specs.Thread.{IsSync};
ghost use Rattle.ring_rules.specs.declared.event.Client.{Client as AClient};
ghost use Rattle.ring_rules.specs.declared.phase.Phase.TheVariants.{Up};
ghost use Rattle.ring_rules.specs.Event.{asked_of};
ghost use Rattle.lamport_merge.specs.Recorder.{begun};
ghost use Rattle.lamport_merge.specs.Logs.{log_of};
ghost use Rattle.gm_member.specs.Shown.{held_of, ends_of, recorded_of, spare_of};
ghost use Rattle.ring_parties.specs.declared.party.Party.{Party as AParty};
ghost use Rattle.ring_parties.specs.Parties.{keeps_in};
ghost use Rattle.ring_parties.specs.Pairing.{IsAt, EachParty};
ghost use Rattle.ring_parties.specs.Turn.{MayTurn};
ghost use Rattle.ring_parties.specs.Turns.{Begun, SameShown, TakesItsRound, log_by};
ghost use Rattle.ring_parties.specs.Played.{MayTakeTurns, TakeTheirTurns};

use crate::party::Party;
use crate::turn::turns_of;
use lamport_merge::{Gathered, LocalLog};
use ring_io::Gate;
use ring_names::OutOfMemory;
use ring_rules::Client;
use std::thread::{Threads, join_mut};

/// A round of this number begins for all members, with room for so many turns of each. Want of memory leaves some as they
/// were.
pub(crate) fn begin_all(members: &mut [Party], number: u32, turns: u32) -> Result<(), OutOfMemory>
    ensures begun { OnOk result (EachParty (λ _ p p'. Begun number turns p p') members.old members.new) }
    ensures same { EachParty (λ _ p p'. SameShown p p') members.old members.new }
{
    for place in 0..members.len() {
        members[place].node.begin(number, false, turns)?;
    }
    Ok(())
}

/// A member whose receiver takes from its link takes its turns, at most so many; another rests.
fn take_round<G: Gate>(
    gate: &G,
    party: &mut Party,
    tasks: &[Client],
    turns: u32,
    done: &mut usize,
) -> Result<(), OutOfMemory>
    requires may { (party.old).meets ≡ true → (held_of party.old.node).phase ≡ Up → MayTurn party.old }
    requires room { turns ≤ spare_of party.old.node }
    requires own { All (λ task. asked_of task ≡ (held_of party.old.node).name) tasks.now }
    requires none { done.old ≡ 0 }
    ensures { TakesItsRound turns tasks.now done.new party.old party.new }
{
    if !party.meets {
        return Ok(());
    }
    turns_of(gate, party, tasks, turns, done)
}

/// These members take their turns one after another, at most so many each.
fn take_turns_here<G: Gate>(
    gate: &G,
    tasks: &[&[Client]],
    turns: u32,
    members: &mut [Party],
    done: &mut [usize],
) -> Result<(), OutOfMemory>
    requires may { MayTakeTurns turns (map (λ t. t.now) tasks.now) members.old }
    requires tasks { length tasks.now ≡ length members.old }
    requires done { length done.old ≡ length members.old }
    requires none { All (λ n. n ≡ 0) done.old }
    ensures count { length done.new ≡ length done.old }
    ensures turns { TakeTheirTurns turns (map (λ t. t.now) tasks.now) done.new members.old members.new }
{
    let mut outcome = Ok(());
    for place in 0..members.len() {
        let taken = take_round(
            gate,
            &mut members[place],
            tasks[place],
            turns,
            &mut done[place],
        );
        if taken.is_err() {
            outcome = taken;
        }
    }
    outcome
}

/// Each member whose receiver takes from its link takes its turns, at most so many; the others rest. The list is cut into
/// halves, these again, and so on, so many times; the parts go side by side.
pub(crate) fn take_all_turns<R: Threads + Sync, G: Gate>(
    threads: &R,
    gate: &G,
    cuts: u32,
    tasks: &[&[Client]],
    turns: u32,
    members: &mut [Party],
    done: &mut [usize],
) -> Result<(), OutOfMemory>
    requires may { MayTakeTurns turns (map (λ t. t.now) tasks.now) members.old }
    requires tasks { length tasks.now ≡ length members.old }
    requires done { length done.old ≡ length members.old }
    requires none { All (λ n. n ≡ 0) done.old }
    ensures count { length done.new ≡ length done.old }
    ensures turns { TakeTheirTurns turns (map (λ t. t.now) tasks.now) done.new members.old members.new }
{
    if cuts == 0 {
        return take_turns_here(gate, tasks, turns, members, done);
    }
    let fewer = cuts - 1;
    let middle = members.len() / 2;
    let (front_tasks, back_tasks) = tasks.split_at(middle);
    let (front_done, back_done) = done.split_at_mut(middle);
    let (front, back) = members.split_at_mut(middle);
    let (first, second) = join_mut(
        threads,
        &mut || -> Result<(), OutOfMemory>
            requires threads { IsSync R.row × IsSync G.row }
            requires may { MayTakeTurns turns (map (λ t. t.now) front_tasks.now) front.now }
            requires tasks { length front_tasks.now ≡ length front.now }
            requires done { length front_done.now ≡ length front.now }
            requires none { All (λ n. n ≡ 0) front_done.now }
            ensures count { length front_done.exit.now ≡ length front_done.entry.now }
            ensures turns { TakeTheirTurns turns (map (λ t. t.now) front_tasks.entry.now) front_done.exit.now front.entry.now front.exit.now }
        { take_all_turns(threads, gate, fewer, front_tasks, turns, front, front_done) },
        &mut || -> Result<(), OutOfMemory>
            requires threads { IsSync R.row × IsSync G.row }
            requires may { MayTakeTurns turns (map (λ t. t.now) back_tasks.now) back.now }
            requires tasks { length back_tasks.now ≡ length back.now }
            requires done { length back_done.now ≡ length back.now }
            requires none { All (λ n. n ≡ 0) back_done.now }
            ensures count { length back_done.exit.now ≡ length back_done.entry.now }
            ensures turns { TakeTheirTurns turns (map (λ t. t.now) back_tasks.entry.now) back_done.exit.now back.entry.now back.exit.now }
        { take_all_turns(threads, gate, fewer, back_tasks, turns, back, back_done) },
    );
    first.and(second)
}

/// Takes the log of a member, which goes by the member's id.
fn take_log(party: &mut Party) -> LocalLog
    ensures log { log_of result ≡ log_by party.old }
    ensures same { SameShown party.old party.new }
{
    let mut log = party.node.give_log();
    log.party = party.node.id().0;
    log
}

/// Takes the logs of all members, in their order. It takes no memory.
pub(crate) fn gather(members: &mut [Party], logs: &mut Gathered)
    requires { length members.old ≤ (logs.old).room }
    ensures logs { (logs.new).logs ≡ (logs.old).logs ++ map log_by members.old }
    ensures same { EachParty (λ _ p p'. SameShown p p') members.old members.new }
{
    for place in 0..members.len() {
        logs.add(take_log(&mut members[place]));
    }
}
