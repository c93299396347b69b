//! A turn of a party in a round, beside the others: what it does by itself on the links that it has. What it would have
//! to ask of the registrar it leaves.
ghost use Rattle.std.specs.Prelude.{◌≡◌, ◌≢◌, ◌⊎◌, ◌∷◌, ◌+◌, ◌<◌, ◌≤◌, ◌^◌, [], true, false, None, Some, Option, OnOk, OnErr, IfOk, option_map, slice_get, IfSome, nat_eq};
ghost use Rattle.ring_rules.specs.declared.event.Client.{Client as AClient};
ghost use Rattle.ring_rules.specs.Kind.{Says, kind_of, shown_kind};
ghost use Rattle.ring_rules.specs.Event.{asked_of, by_of, event_of, is_asked, is_told};
ghost use Rattle.ring_rules.specs.declared.event.Event.TheVariants as event;
ghost use Rattle.lamport_merge.specs.Recorder.{is_used_up};
ghost use Rattle.gm_member.specs.Shown.{recorded_of, spare_of, held_of};
ghost use Rattle.ring_parties.specs.Parties.{shown_in, keeps_in};
ghost use Rattle.ring_parties.specs.Acting.{alone_refused};
ghost use Rattle.ring_parties.specs.Round.{refused_by_itself};
ghost use Rattle.ring_parties.specs.Turn.{MayTurn, Acted, TriesTurn, HasRoomBack, HasEarlyGrant};
ghost use Rattle.ring_parties.specs.Turns.{TookTurn, TakesRound, is_saying, answered_by, is_by_itself};
ghost use Rattle.ring_rules.specs.declared.phase.Phase.TheVariants.{Up};
ghost use Rattle.std.specs.List.{All};

use crate::node::Node;
use crate::party::Party;
use crate::queue::{apply_taken, ask_refusal, carried, message, publish, say_refusal};
use crate::refusing::{first_item, is_passing};
use gm_member::MemberFault;
use ring_io::{AFTER, BEFORE, Gate};
use ring_names::OutOfMemory;
use ring_rules::{Asking, Client, Event, Kind, Phase};

/// What came of a turn.
#[derive(Clone, Copy, PartialEq, Eq, Debug)]
pub(crate) enum Turn {
    /// The next task was done or refused.
    Task,
    /// The party did something of its own.
    Own,
    /// It did nothing.
    Nothing,
}

/// Looks at the link from which the member takes, where it knows of nothing that stands there.
fn look(party: &mut Party)
    requires { MayTurn party.old }
    ensures acted { Acted [] party.old party.new }
    ensures held { held_of party.new.node ≡ held_of party.old.node }
{
    if first_item(&party.node).is_some() {
        return;
    }
    let Some(mut link) = party.node.lend_in(0) else {
        return;
    };
    link.look();
    party.node.give_in(0, link);
}

/// Whether a grant that is due with the next packet has a slot on the way back.
fn has_room_back(node: &Node) -> bool
    ensures { result ≡ true → HasRoomBack node.now }
{
    match node.link_end() {
        Some(link) => link.has_room(),
        None => false,
    }
}

/// The party takes the oldest packet of its link, where there is one that it may take now.
fn take(party: &mut Party) -> Result<bool, OutOfMemory>
    requires may { MayTurn party.old }
    requires lasts { is_used_up (recorded_of party.old.node) ≡ false }
    ensures { TriesTurn (λ e. e ≡ event.Take (held_of party.old.node).name) party.old party.new result }
{
    look(party);
    if !has_room_back(&party.node) {
        return Ok(false);
    }
    take_known(party)
}

/// The same of a packet that is known to stand there, where there is a slot on the way back.
fn take_known(party: &mut Party) -> Result<bool, OutOfMemory>
    requires may { MayTurn party.old }
    requires lasts { is_used_up (recorded_of party.old.node) ≡ false }
    requires room { HasRoomBack party.old.node }
    ensures { TriesTurn (λ e. e ≡ event.Take (held_of party.old.node).name) party.old party.new result }
{
    let coming = carried(&party.node);
    party.mirror.reserve(coming)?;
    match party.node.take() {
        Ok(taken) => {
            party.hear_round();
            apply_taken(&mut party.mirror, taken);
            Ok(true)
        }
        Err(MemberFault::Refused(_)) => Ok(false),
        Err(MemberFault::OutOfMemory) => Err(OutOfMemory),
    }
}

/// Whether the oldest grant that its link knows to have come back may be gained in this round.
fn has_early_grant(node: &Node) -> bool
    ensures { result ≡ true → HasEarlyGrant node.now }
{
    match node.out_end() {
        Some(out) => match out.first_back() {
            Some(grant) => !node.is_late(grant.stamp),
            None => false,
        },
        None => false,
    }
}

/// The party gains the oldest grant that came back, where there is one that it may gain now.
fn gain(party: &mut Party) -> Result<bool, OutOfMemory>
    requires may { MayTurn party.old }
    requires lasts { is_used_up (recorded_of party.old.node) ≡ false }
    requires room { 0 < spare_of party.old.node }
    ensures { TriesTurn (λ e. e ≡ event.Gain (held_of party.old.node).name) party.old party.new result }
{
    if !has_early_grant(&party.node) {
        return Ok(false);
    }
    let Some(grant) = party.node.granted() else {
        unreachable!()
    };
    match party.node.gain(grant) {
        Ok(()) => Ok(true),
        Err(_) => unreachable!(),
    }
}

/// The party puts its next packet, where it has one and its link a slot for it.
fn put(party: &mut Party) -> Result<bool, OutOfMemory>
    requires may { MayTurn party.old }
    requires lasts { is_used_up (recorded_of party.old.node) ≡ false }
    ensures { TriesTurn (λ e. e ≡ event.Put (held_of party.old.node).name) party.old party.new result }
{
    match party.node.put() {
        Ok(()) => Ok(true),
        Err(MemberFault::Refused(_)) => Ok(false),
        Err(MemberFault::OutOfMemory) => Err(OutOfMemory),
    }
}

/// The party says what an event of its own says, which nothing refuses.
fn say(party: &mut Party, event: &Event) -> Result<(), OutOfMemory>
    requires may { MayTurn party.old }
    requires lasts { is_used_up (recorded_of party.old.node) ≡ false }
    requires says { is_saying (kind_of event.now) ≡ true }
    requires own { by_of event.now ≡ (held_of party.old.node).name }
    requires enabled { alone_refused (kind_of event.now) (keeps_in party.old) (shown_in party.old) ≡ None }
    ensures ok { OnOk result (Acted (event.now ∷ []) party.old party.new) }
    ensures err { OnErr result (Acted [] party.old party.new) }
{
    let message = message(party, event)?;
    match publish(party, message) {
        Ok(()) => Ok(()),
        Err(_) => Err(OutOfMemory),
    }
}

/// The party tells a client that what it asked isn't done, with this number.
fn refuse(party: &mut Party, code: u32, task: &Client) -> Result<(), OutOfMemory>
    requires may { MayTurn party.old }
    requires lasts { is_used_up (recorded_of party.old.node) ≡ false }
    requires own { asked_of task.now ≡ (held_of party.old.node).name }
    requires told { is_told code (refused_by_itself (kind_of (event_of task.now)) (held_of party.old.node)
        (keeps_in party.old)) ≡ true }
    ensures ok { OnOk result (Acted (event.Refuse code task.now ∷ []) party.old party.new) }
    ensures err { OnErr result (Acted [] party.old party.new) }
{
    match party.node.refuse(code, task.copy()?) {
        Ok(()) => Ok(()),
        Err((_task, OutOfMemory)) => Err(OutOfMemory),
    }
}

/// The party starts as a master, where it has to.
fn start(party: &mut Party) -> Result<bool, OutOfMemory>
    requires may { MayTurn party.old }
    requires lasts { is_used_up (recorded_of party.old.node) ≡ false }
    ensures { TriesTurn (λ e. e ≡ event.Start (held_of party.old.node).name) party.old party.new result }
{
    if ask_refusal(party, Asking::Start).is_some() {
        return Ok(false);
    }
    let by = *party.node.name();
    say(party, &Event::Start { by })?;
    Ok(true)
}

/// Whether an event says something.
fn says(event: &Event) -> bool
    ensures { result ≡ is_saying (kind_of event.now) }
{
    matches!(event.kind(), Kind::Says)
}

/// The party does a task, or refuses it, where it tells that by itself: whether it did. What it would have to ask of the
/// registrar it leaves, and what is refused for a reason that will pass.
fn answer(party: &mut Party, task: &Client) -> Result<bool, OutOfMemory>
    requires may { MayTurn party.old }
    requires lasts { is_used_up (recorded_of party.old.node) ≡ false }
    requires own { asked_of task.now ≡ (held_of party.old.node).name }
    ensures { TriesTurn (λ e. (is_asked e ≡ true) × (answered_by e ≡ event_of task.now) × (is_by_itself e ≡ true))
        party.old party.new result }
{
    let event = task.event()?;
    if !says(&event) {
        return Ok(false);
    }
    let Some(reason) = say_refusal(party, &event) else {
        say(party, &event)?;
        return Ok(true);
    };
    if is_passing(&reason) {
        return Ok(false);
    }
    refuse(party, reason.code(), task)?;
    Ok(true)
}

/// The party does something of its own, where it has any of that to do: it starts as a master, takes, gains or puts.
fn do_own(party: &mut Party) -> Result<bool, OutOfMemory>
    requires may { MayTurn party.old }
    requires lasts { is_used_up (recorded_of party.old.node) ≡ false }
    requires room { 0 < spare_of party.old.node }
    ensures { TriesTurn (λ e. is_asked e ≡ false) party.old party.new result }
{
    if start(party)? {
        return Ok(true);
    }
    if take(party)? {
        return Ok(true);
    }
    if gain(party)? {
        return Ok(true);
    }
    let did = put(party)?;
    Ok(did)
}

/// What came of a turn in which the party did something of its own, or didn't.
fn own_turn(did: bool) -> Turn
    ensures own { did ≡ true → result ≡ Turn.Own }
    ensures nothing { did ≡ false → result ≡ Turn.Nothing }
{
    if did { Turn::Own } else { Turn::Nothing }
}

/// A turn in which the party answers its next task, or starts as a master where that has to wait for it; with no task it
/// does something of its own.
fn task_first(party: &mut Party, next: Option<&Client>) -> Result<Turn, OutOfMemory>
    requires may { MayTurn party.old }
    requires lasts { is_used_up (recorded_of party.old.node) ≡ false }
    requires room { 0 < spare_of party.old.node }
    requires own { IfSome next (λ task. asked_of task.now ≡ (held_of party.old.node).name) }
    ensures { TookTurn true (option_map (λ task. task.now) next.entry) party.old party.new result }
{
    let Some(task) = next else {
        let did = do_own(party)?;
        return Ok(own_turn(did));
    };
    if answer(party, task)? {
        return Ok(Turn::Task);
    }
    let did = start(party)?;
    Ok(own_turn(did))
}

/// A turn in which it does something of its own, or else answers its next task.
fn own_first(party: &mut Party, next: Option<&Client>) -> Result<Turn, OutOfMemory>
    requires may { MayTurn party.old }
    requires lasts { is_used_up (recorded_of party.old.node) ≡ false }
    requires room { 0 < spare_of party.old.node }
    requires own { IfSome next (λ task. asked_of task.now ≡ (held_of party.old.node).name) }
    ensures { TookTurn false (option_map (λ task. task.now) next.entry) party.old party.new result }
{
    if do_own(party)? {
        return Ok(Turn::Own);
    }
    let Some(task) = next else {
        return Ok(Turn::Nothing);
    };
    if answer(party, task)? {
        return Ok(Turn::Task);
    }
    Ok(Turn::Nothing)
}

/// In how many further turns of a round a party prefers its own work once.
const OWN_EVERY: u32 = 8;

/// Whether a party prefers its own work in a turn of a round, by the number of that turn from 0 on: not in the first,
/// which begins with its task, but in the second, and from there in every eighth.
fn prefers_own(turn: u32) -> bool
    ensures { result ≡ true → nat_eq turn 0 ≡ false }
{
    turn % OWN_EVERY == 1
}

/// A turn of this number, from 0 on.
fn take_turn(party: &mut Party, next: Option<&Client>, turn: u32) -> Result<Turn, OutOfMemory>
    requires may { MayTurn party.old }
    requires lasts { is_used_up (recorded_of party.old.node) ≡ false }
    requires room { 0 < spare_of party.old.node }
    requires own { IfSome next (λ task. asked_of task.now ≡ (held_of party.old.node).name) }
    ensures { TookTurn (nat_eq turn 0) (option_map (λ task. task.now) next.entry) party.old party.new result }
{
    if prefers_own(turn) {
        own_first(party, next)
    } else {
        task_first(party, next)
    }
}

/// A turn of this number, before and after which the gate is passed.
fn gated_turn<G: Gate>(
    gate: &G,
    party: &mut Party,
    next: Option<&Client>,
    turn: u32,
) -> Result<Turn, OutOfMemory>
    requires may { MayTurn party.old }
    requires lasts { is_used_up (recorded_of party.old.node) ≡ false }
    requires room { 0 < spare_of party.old.node }
    requires own { IfSome next (λ task. asked_of task.now ≡ (held_of party.old.node).name) }
    ensures { TookTurn (nat_eq turn 0) (option_map (λ task. task.now) next.entry) party.old party.new result }
{
    let who = party.node.id();
    gate.pass(who, BEFORE);
    let took = take_turn(party, next, turn);
    gate.pass(who, AFTER);
    took
}

/// Whether a member is up.
fn is_up(node: &Node) -> bool
    ensures up { result ≡ true → (held_of node.now).phase ≡ Up }
    ensures other { result ≡ false → (held_of node.now).phase ≢ Up }
{
    matches!(node.phase(), Phase::Up)
}

/// The next task, where so many are done.
fn next_task(tasks: &[Client], done: usize) -> Option<&Client>
    ensures { option_map (λ task. task.now) result ≡ slice_get tasks.now done }
{
    tasks.get(done)
}

/// Counts the next task, where a turn did that: whether there may be a further turn.
fn counts(turn: Turn, done: &mut usize) -> bool
    requires { done.old < 2 ^ 63 }
    ensures goes { result ≡ true → ((turn ≡ Turn.Task) × (done.new ≡ done.old + 1)) ⊎ ((turn ≡ Turn.Own) × (done.new ≡ done.old)) }
    ensures ends { result ≡ false → (turn ≡ Turn.Nothing) × (done.new ≡ done.old) }
{
    match turn {
        Turn::Task => {
            *done += 1;
            true
        }
        Turn::Own => true,
        Turn::Nothing => false,
    }
}

/// The turns of a party in a round: while it does anything, and at most so many. One that isn't up takes none. `done`
/// tells how many of its tasks are done or refused by them. Before and after each turn the gate is passed.
pub(crate) fn turns_of<G: Gate>(
    gate: &G,
    party: &mut Party,
    tasks: &[Client],
    turns: u32,
    done: &mut usize,
) -> Result<(), OutOfMemory>
    requires may { (held_of party.old.node).phase ≡ Up → MayTurn party.old }
    requires room { turns ≤ spare_of party.old.node }
    requires own { All (λ task. asked_of task ≡ (held_of party.old.node).name) tasks.now }
    requires none { done.old ≡ 0 }
    ensures { TakesRound turns tasks.now done.new party.old party.new }
{
    if !is_up(&party.node) {
        return Ok(());
    }
    for turn in 0..turns {
        if party.node.spent() {
            return Ok(());
        }
        let took = gated_turn(gate, party, next_task(tasks, *done), turn)?;
        if !counts(took, done) {
            return Ok(());
        }
    }
    Ok(())
}
