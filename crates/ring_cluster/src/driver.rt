//! The turns of the members: rounds, and the drain that ends when nothing is left to do.
ghost use Rattle.std.specs.Prelude.{◌≡◌, ◌≢◌, ℕ, List, ◌+◌, ◌-◌, ◌<◌, ◌≤◌, ◌∷◌, ◌++◌, ◌||◌, true, false, not};
ghost use Rattle.std.specs.Prelude.{OnOk, IfOk, MatchOption, Some, None, Contains};
ghost use Rattle.std.specs.List.{list_any};
ghost use Rattle.ring_rules.specs.Machine.{member_at, view_in, newest as the_newest, right as the_right};
ghost use Rattle.ring_rules.specs.Machine.{runs as runs_at};
ghost use Rattle.ring_rules.specs.Step.{size};
ghost use Rattle.ring_rules.specs.Refusal.{is_empty};
ghost use Rattle.ring_rules.specs.declared.event.Event.TheVariants as event;
ghost use Rattle.ring_rules.specs.Event.{by_of, refusal, erase_refusal, is_asked};
ghost use Rattle.ring_rules.specs.Settling.{owes_telling};
ghost use Rattle.ring_rules.specs.Work.{total, is_stale as the_staleness, is_untold as the_untold, LeavesLess};
ghost use Rattle.ring_cluster.specs.Seen.{state_of, SameButOwed, with_event};
ghost use Rattle.ring_cluster.specs.Plays.{agenda_of, HasBegun, AgendasAreEmpty};
ghost use Rattle.ring_cluster.specs.Turns.{Works, DoesOrRests, TakesRound, IsMemberAt};
ghost use Rattle.ring_cluster.specs.Turns.{MayStep, MayStepNowhere, MarksNoneAt, ErasesNoneAt, RestsAt, DoesAtMost};
ghost use Rattle.ring_cluster.specs.Turns.{EachDoesAtMost, HasTurn, turn_event, RepairsNothing};
ghost use Rattle.ring_cluster.specs.Turns.{FinishesOrRests, AllLeaveAgendas, AllRest, StartsNot, StartsFirst};

use crate::cluster::Cluster;
use group_view::{Entry, Mark};
use ring_io::{AFTER, BEFORE, Gate};
use ring_names::{MemberId, Name, OutOfMemory};
use ring_rules::{Event, LinkStep, Phase, Refused};
use std::thread::Threads;

/// What a member has to do by itself.
#[derive(Clone, Copy, PartialEq, Eq, Debug)]
pub(crate) enum OwnTurn {
    /// It starts as a master.
    Start,
    /// It reads the newest view.
    Refresh,
    /// It has its right neighbour in that view marked dead.
    Mark,
    /// It has that one erased.
    Erase(MemberId),
    /// It has itself registered as synchronised.
    Register,
    /// It tells how many messages its queue has, as a master.
    Tell,
    /// It does a step on its links.
    Step(LinkStep),
}

/// An event of the member of an id, of its own, that leaves less to do, where it is enabled: whether it was.
#[tactic(auto, using(crate::proofs::rounds::Turning::own_step))]
fn happens(cluster: &mut Cluster, id: MemberId, event: &Event) -> Result<bool, OutOfMemory>
    requires within { (1 ≤ id.0) × (id.0 < size (state_of cluster.old)) }
    requires named { by_of event.now ≡ (member_at (state_of cluster.old) id.0).name }
    requires own { is_asked event.now ≡ false }
    requires less { LeavesLess (state_of cluster.old) event.now }
    ensures does { DoesOrRests cluster.old cluster.new (refusal (state_of cluster.old) event.now ≢ None) result }
    ensures once { DoesAtMost 1 (member_at (state_of cluster.old) id.0).name cluster.old cluster.new }
    ensures done { IfOk result (λ b. b ≡ true → SameButOwed (with_event cluster.old event.now) cluster.new) }
{
    cluster.is_going();
    match cluster.happen(id.0 as usize - 1, event) {
        Ok(()) => Ok(true),
        Err(Refused::NotEnabled(_)) => Ok(false),
        Err(Refused::OutOfMemory) => Err(OutOfMemory),
    }
}

/// The name of the member of an id.
fn name_of(cluster: &Cluster, id: MemberId) -> Name
    requires { (1 ≤ id.0) × (id.0 < size (state_of cluster.now)) }
    ensures { result ≡ (member_at (state_of cluster.now) id.0).name }
{
    cluster.is_going();
    cluster.name_at(id.0 as usize - 1)
}

/// Whether it is stale: its view isn't the newest, or it sends on no link.
fn is_stale(cluster: &Cluster, id: MemberId) -> bool
    requires { (1 ≤ id.0) × (id.0 < size (state_of cluster.now)) }
    ensures { result ≡ the_staleness (the_newest (state_of cluster.now)) (member_at (state_of cluster.now) id.0) }
{
    cluster.is_going();
    let Some(member) = cluster.member(id) else {
        unreachable!()
    };
    let is_old = member.view().version != cluster.view().version;
    let name = member.out_name();
    let sends = name.is_some();
    either(is_old, !sends)
}

/// The version of the newest view.
fn newest(cluster: &Cluster) -> u32
    ensures { result ≡ the_newest (state_of cluster.now) }
{
    cluster.is_going();
    cluster.view().version
}

/// The right neighbour of a member that runs, in the newest view.
fn right_of(cluster: &Cluster, id: MemberId) -> MemberId
    requires within { (1 ≤ id.0) × (id.0 < size (state_of cluster.now)) }
    requires runs { runs_at (state_of cluster.now) id.0 ≡ true }
    ensures right { result.0 ≡ the_right (state_of cluster.now) (the_newest (state_of cluster.now)) id.0 }
    ensures within { (1 ≤ result.0) × (result.0 < size (state_of cluster.now)) }
{
    cluster.is_going();
    cluster.view().right_of(id)
}

/// Whether the member of an id has stopped.
fn has_stopped(cluster: &Cluster, id: MemberId) -> bool
    requires { (1 ≤ id.0) × (id.0 < size (state_of cluster.now)) }
    ensures { result ≡ false → (member_at (state_of cluster.now) id.0).phase ≢ Phase.Stopped }
{
    let Some(member) = cluster.member(id) else {
        unreachable!()
    };
    match member.phase() {
        Phase::Stopped => true,
        Phase::Waiting | Phase::Up => false,
    }
}

/// Whether a member that runs may have its right neighbour in the newest view marked dead: not where that hasn't
/// stopped.
fn may_mark(cluster: &Cluster, id: MemberId) -> bool
    requires within { (1 ≤ id.0) × (id.0 < size (state_of cluster.now)) }
    requires runs { runs_at (state_of cluster.now) id.0 ≡ true }
    ensures may { result ≡ true → HasTurn (state_of cluster.now) id.0 OwnTurn.Mark }
    ensures may_not { result ≡ false → MarksNoneAt (state_of cluster.now) id.0 }
{
    cluster.is_going();
    let right = right_of(cluster, id);
    if !has_stopped(cluster, right) {
        return false;
    }
    let dead = name_of(cluster, right);
    cluster.may_mark(id.0 as usize - 1, &dead)
}

/// The first of the dead in the newest view that a member that is up may have erased. Only the dead are asked for.
fn next_erasable(cluster: &Cluster, id: MemberId) -> Option<MemberId>
    requires within { (1 ≤ id.0) × (id.0 < size (state_of cluster.now)) }
    requires up { (member_at (state_of cluster.now) id.0).phase ≡ Phase.Up }
    ensures { MatchOption result (ErasesNoneAt (state_of cluster.now) id.0)
        (λ origin. HasTurn (state_of cluster.now) id.0 (OwnTurn.Erase origin)) }
{
    cluster.is_going();
    for entry in cluster.view().entries.as_slice() {
        if may_erase(cluster, id, entry) {
            return Some(entry.id);
        }
    }
    None
}

/// Whether a member that is up may have the one of an entry of the newest view erased: not where that isn't dead.
fn may_erase(cluster: &Cluster, id: MemberId, entry: &Entry) -> bool
    requires within { (1 ≤ id.0) × (id.0 < size (state_of cluster.now)) }
    requires up { (member_at (state_of cluster.now) id.0).phase ≡ Phase.Up }
    requires entry { Contains (view_in (state_of cluster.now) (the_newest (state_of cluster.now))).entries entry.now }
    ensures may { result ≡ true → HasTurn (state_of cluster.now) id.0 (OwnTurn.Erase (entry.now).id) }
    ensures may_not { result ≡ false → erase_refusal (state_of cluster.now) id.0 (entry.now).id.0 ≢ None }
{
    cluster.is_going();
    match entry.mark {
        Mark::Dead => {
            let origin = name_of(cluster, entry.id);
            cluster.may_erase(id.0 as usize - 1, &origin)
        }
        Mark::Live => false,
        Mark::Erased => false,
    }
}

/// Whether an event of the member of an id may happen.
fn may_do(cluster: &Cluster, id: MemberId, event: &Event) -> bool
    requires within { (1 ≤ id.0) × (id.0 < size (state_of cluster.now)) }
    requires named { by_of event.now ≡ (member_at (state_of cluster.now) id.0).name }
    ensures may { result ≡ true → refusal (state_of cluster.now) event.now ≡ None }
    ensures may_not { result ≡ false → refusal (state_of cluster.now) event.now ≢ None }
{
    cluster.is_going();
    let refusal = cluster.refusal(id.0 as usize - 1, event);
    refusal.is_none()
}

/// Whether a member has its start to publish, as a new master.
fn may_start(cluster: &Cluster, id: MemberId) -> bool
    requires { (1 ≤ id.0) × (id.0 < size (state_of cluster.now)) }
    ensures may { result ≡ true → HasTurn (state_of cluster.now) id.0 OwnTurn.Start }
    ensures may_not { result ≡ false → StartsNot (state_of cluster.now) id.0 }
{
    let by = name_of(cluster, id);
    may_do(cluster, id, &Event::Start { by })
}

/// Whether it may be registered as synchronised.
fn may_register(cluster: &Cluster, id: MemberId) -> bool
    requires { (1 ≤ id.0) × (id.0 < size (state_of cluster.now)) }
    ensures may { result ≡ true → HasTurn (state_of cluster.now) id.0 OwnTurn.Register }
    ensures may_not { result ≡ false
        → refusal (state_of cluster.now) (event.Synced (member_at (state_of cluster.now) id.0).name) ≢ None }
{
    let by = name_of(cluster, id);
    may_do(cluster, id, &Event::Synced { by })
}

/// Whether a member that has told how many messages its queue has with a view of the version `told`, and whose view is of
/// the version `version` now, has that to tell to the one of an entry.
fn is_untold(version: u32, told: u32, entry: &Entry) -> bool
    ensures { result ≡ the_untold version told entry.now }
{
    let is_live = matches!(entry.mark, Mark::Live);
    is_live && !entry.synced && told < entry.joined && told < version
}

/// Whether it has that to tell to any of these.
fn any_untold(version: u32, told: u32, entries: &[Entry]) -> bool
    ensures { result ≡ list_any (the_untold version told) entries.now }
{
    entries.iter().any(|entry| is_untold(version, told, entry))
}

/// Whether a member has it to tell to any of those that its view has.
fn has_untold(cluster: &Cluster, id: MemberId) -> bool
    requires { (1 ≤ id.0) × (id.0 < size (state_of cluster.now)) }
    ensures { result ≡ owes_telling (state_of cluster.now) (Some id.0) }
{
    cluster.is_going();
    let Some(member) = cluster.member(id) else {
        unreachable!()
    };
    let view = member.view();
    any_untold(view.version, cluster.told(id), view.entries.as_slice())
}

/// Whether a member may tell it as a master, and has somebody to tell.
fn may_tell(cluster: &Cluster, id: MemberId) -> bool
    requires { (1 ≤ id.0) × (id.0 < size (state_of cluster.now)) }
    ensures may { result ≡ true → HasTurn (state_of cluster.now) id.0 OwnTurn.Tell }
    ensures may_not { result ≡ false → owes_telling (state_of cluster.now) (Some id.0) ≡ true
        → refusal (state_of cluster.now) (event.Depth (member_at (state_of cluster.now) id.0).name) ≢ None }
{
    if !has_untold(cluster, id) {
        return false;
    }
    let by = name_of(cluster, id);
    may_do(cluster, id, &Event::Depth { by })
}

/// The first step on its links that a member may do.
fn next_step(cluster: &Cluster, id: MemberId) -> Option<LinkStep>
    requires { (1 ≤ id.0) × (id.0 < size (state_of cluster.now)) }
    ensures { MatchOption result (MayStepNowhere (state_of cluster.now) id.0) (MayStep (state_of cluster.now) id.0) }
{
    let place = id.0 as usize - 1;
    if cluster.may_step(place, LinkStep::Pick) {
        return Some(LinkStep::Pick);
    }
    if cluster.may_step(place, LinkStep::Take) {
        return Some(LinkStep::Take);
    }
    if cluster.may_step(place, LinkStep::TakeEnd) {
        return Some(LinkStep::TakeEnd);
    }
    if cluster.may_step(place, LinkStep::Gain) {
        return Some(LinkStep::Gain);
    }
    if cluster.may_step(place, LinkStep::Put) {
        return Some(LinkStep::Put);
    }
    None
}

/// What a member that is up has to repair: where it is stale, it reads the newest view; else it has its right
/// neighbour marked dead, or somebody erased, or itself registered as synchronised, or tells as a master how many messages
/// there are, the first of these that it may. This only reads.
fn next_repair(cluster: &Cluster, id: MemberId) -> Option<OwnTurn>
    requires within { (1 ≤ id.0) × (id.0 < size (state_of cluster.now)) }
    requires up { (member_at (state_of cluster.now) id.0).phase ≡ Phase.Up }
    ensures { MatchOption result (RepairsNothing (state_of cluster.now) id.0) (HasTurn (state_of cluster.now) id.0) }
{
    if is_stale(cluster, id) {
        return Some(OwnTurn::Refresh);
    }
    if may_mark(cluster, id) {
        return Some(OwnTurn::Mark);
    }
    if let Some(origin) = next_erasable(cluster, id) {
        return Some(OwnTurn::Erase(origin));
    }
    if may_register(cluster, id) {
        return Some(OwnTurn::Register);
    }
    if may_tell(cluster, id) {
        return Some(OwnTurn::Tell);
    }
    None
}

/// What a member that runs has to do: one that is up publishes its start first, where it is a new master; else it
/// repairs, where it has anything to; else the first step on its links that it may. One that waits may take its first
/// packet, and nothing else. This only reads.
fn next_turn(cluster: &Cluster, id: MemberId) -> Option<OwnTurn>
    requires { (1 ≤ id.0) × (id.0 < size (state_of cluster.now)) }
    ensures next { MatchOption result (RestsAt (state_of cluster.now) id.0) (HasTurn (state_of cluster.now) id.0) }
    ensures starts { (member_at (state_of cluster.now) id.0).phase ≡ Phase.Up
        → HasTurn (state_of cluster.now) id.0 OwnTurn.Start → result ≡ Some OwnTurn.Start }
{
    if cluster.is_up(id) {
        if may_start(cluster, id) {
            return Some(OwnTurn::Start);
        }
        if let Some(turn) = next_repair(cluster, id) {
            return Some(turn);
        }
    }
    let step = next_step(cluster, id)?;
    Some(OwnTurn::Step(step))
}

/// The event by which a member that runs does it.
fn event_of(cluster: &Cluster, id: MemberId, turn: OwnTurn) -> Event
    requires within { (1 ≤ id.0) × (id.0 < size (state_of cluster.now)) }
    requires runs { runs_at (state_of cluster.now) id.0 ≡ true }
    requires turn { HasTurn (state_of cluster.now) id.0 turn }
    ensures { result ≡ turn_event (state_of cluster.now) id.0 turn }
{
    cluster.is_going();
    let by = name_of(cluster, id);
    match turn {
        OwnTurn::Start => Event::Start { by },
        OwnTurn::Refresh => Event::Refresh {
            by,
            view: newest(cluster),
        },
        OwnTurn::Mark => Event::Mark {
            by,
            dead: name_of(cluster, right_of(cluster, id)),
        },
        OwnTurn::Erase(origin) => Event::Erase {
            by,
            origin: name_of(cluster, origin),
        },
        OwnTurn::Register => Event::Synced { by },
        OwnTurn::Tell => Event::Depth { by },
        OwnTurn::Step(step) => step.event(by),
    }
}

/// A member that runs does what it has to do.
fn take_turn(cluster: &mut Cluster, id: MemberId, turn: OwnTurn) -> Result<(), OutOfMemory>
    requires within { (1 ≤ id.0) × (id.0 < size (state_of cluster.old)) }
    requires runs { runs_at (state_of cluster.old) id.0 ≡ true }
    requires turn { HasTurn (state_of cluster.old) id.0 turn }
    ensures works { Works cluster.old cluster.new }
    ensures falls { OnOk result (total (state_of cluster.new) < total (state_of cluster.old)) }
    ensures once { DoesAtMost 1 (member_at (state_of cluster.old) id.0).name cluster.old cluster.new }
    ensures done { OnOk result
        (SameButOwed (with_event cluster.old (turn_event (state_of cluster.old) id.0 turn)) cluster.new) }
{
    cluster.is_going();
    let event = event_of(cluster, id, turn);
    let did = happens(cluster, id, &event)?;
    if !did {
        unreachable!();
    }
    Ok(())
}

/// A member that runs does what it has to do by itself: whether it had anything.
fn own_turn(cluster: &mut Cluster, id: MemberId) -> Result<bool, OutOfMemory>
    requires within { (1 ≤ id.0) × (id.0 < size (state_of cluster.old)) }
    requires runs { runs_at (state_of cluster.old) id.0 ≡ true }
    ensures does { DoesOrRests cluster.old cluster.new (RestsAt (state_of cluster.old) id.0) result }
    ensures once { DoesAtMost 1 (member_at (state_of cluster.old) id.0).name cluster.old cluster.new }
    ensures starts { OnOk result (StartsFirst id.0 cluster.old cluster.new) }
{
    let Some(turn) = next_turn(cluster, id) else {
        return Ok(false);
    };
    take_turn(cluster, id, turn)?;
    Ok(true)
}

/// The member at a place does a step of its own, where it runs and has any to do: whether it did.
#[tactic(auto, using(crate::proofs::rounds::Turning::works_refl, crate::proofs::deposits::Owed::but_refl))]
fn work_turn(cluster: &mut Cluster, place: usize) -> Result<bool, OutOfMemory>
    requires { place + 1 < size (state_of cluster.old) }
    ensures does { DoesOrRests cluster.old cluster.new (RestsAt (state_of cluster.old) (place + 1)) result }
    ensures once { DoesAtMost 1 (member_at (state_of cluster.old) (place + 1)).name cluster.old cluster.new }
    ensures starts { OnOk result (StartsFirst (place + 1) cluster.old cluster.new) }
{
    cluster.is_going();
    let id = MemberId(place as u32 + 1);
    if !cluster.runs(id) {
        return Ok(false);
    }
    let did = own_turn(cluster, id)?;
    Ok(did)
}

/// The member at a place, which has this name, does the head of its agenda, or refuses it, where it has one and what
/// refuses it doesn't pass; else a step of its own, a new master its start. Whether it did any.
#[tactic(auto, using(crate::proofs::rounds::Turning::one_turn))]
fn agenda_first(cluster: &mut Cluster, place: usize, name: &Name) -> Result<bool, OutOfMemory>
    requires { IsMemberAt cluster.old place name.now }
    ensures round { TakesRound cluster.old cluster.new }
    ensures once { DoesAtMost 1 name.now cluster.old cluster.new }
    ensures begun { OnOk result (HasBegun place name.now cluster.old cluster.new) }
{
    cluster.is_going();
    if cluster.perform(place, name)? {
        return Ok(true);
    }
    let did = work_turn(cluster, place)?;
    Ok(did)
}

/// The member at a place, which has this name, takes a turn, where it runs or has a task.
#[tactic(auto, using(crate::proofs::rounds::Turning::last_turn))]
fn last_turn<G: Gate>(
    cluster: &mut Cluster,
    place: usize,
    name: &Name,
    gate: &G,
) -> Result<(), OutOfMemory>
    requires { IsMemberAt cluster.old place name.now }
    ensures round { TakesRound cluster.old cluster.new }
    ensures once { DoesAtMost 1 name.now cluster.old cluster.new }
    ensures begun { OnOk result (HasBegun place name.now cluster.old cluster.new) }
{
    if !has_turns(cluster, place, name) {
        return Ok(());
    }
    gated_turn(cluster, place, name, gate)?;
    Ok(())
}

/// Whether the member at a place takes turns in a round: it runs, or has a task, which it refuses where it has stopped.
fn has_turns(cluster: &Cluster, place: usize, name: &Name) -> bool
    requires { place + 1 < size (state_of cluster.now) }
    ensures { result ≡ (runs_at (state_of cluster.now) (place + 1)
        || not (is_empty (agenda_of cluster.now name.now))) }
{
    cluster.is_going();
    let has_task = cluster.has_task(name);
    either(cluster.runs(MemberId(place as u32 + 1)), has_task)
}

/// A turn, between the gate's two passes, whatever comes of it.
fn gated_turn<G: Gate>(
    cluster: &mut Cluster,
    place: usize,
    name: &Name,
    gate: &G,
) -> Result<bool, OutOfMemory>
    requires { IsMemberAt cluster.old place name.now }
    ensures round { TakesRound cluster.old cluster.new }
    ensures once { DoesAtMost 1 name.now cluster.old cluster.new }
    ensures begun { OnOk result (HasBegun place name.now cluster.old cluster.new) }
{
    cluster.is_going();
    let who = MemberId(place as u32 + 1);
    gate.pass(who, BEFORE);
    let did = agenda_first(cluster, place, name);
    gate.pass(who, AFTER);
    did
}

/// A round: the members take all of their turns but the last side by side, their list cut so many times, and then the
/// last, in which each may ask of the registrar too, one after another.
#[tactic(auto, using(crate::proofs::rounds::Turning::round_parts))]
pub(crate) fn round<T: Threads + Sync, G: Gate>(
    cluster: &mut Cluster,
    threads: &T,
    turns: u32,
    cuts: u32,
    gate: &G,
) -> Result<(), OutOfMemory>
    requires { 1 ≤ turns }
    ensures round { TakesRound cluster.old cluster.new }
    ensures few { EachDoesAtMost turns cluster.old cluster.new }
    ensures begun { OnOk result ((i : ℕ) (name : List ℕ) → IsMemberAt cluster.old i name
        → HasBegun i name cluster.old cluster.new) }
{
    cluster.side_by_side(threads, gate, turns - 1, cuts)?;
    last_turns(cluster, gate)?;
    Ok(())
}

/// Every member that runs or has a task takes its last turn of a round, one member after another.
#[tactic(auto, using(crate::proofs::rounds::Turning::rounds))]
fn last_turns<G: Gate>(cluster: &mut Cluster, gate: &G) -> Result<(), OutOfMemory>
    ensures round { TakesRound cluster.old cluster.new }
    ensures once { EachDoesAtMost 1 cluster.old cluster.new }
    ensures begun { OnOk result ((i : ℕ) (name : List ℕ) → IsMemberAt cluster.old i name
        → HasBegun i name cluster.old cluster.new) }
{
    cluster.is_going();
    let count = cluster.count();
    for place in 0..count {
        let name = cluster.name_at(place);
        last_turn(cluster, place, &name, gate)?;
    }
    Ok(())
}

/// Every member does the first of its tasks, or refuses it, where it has one and what refuses it doesn't pass: whether
/// any did.
fn perform_each(cluster: &mut Cluster) -> Result<bool, OutOfMemory>
    ensures { FinishesOrRests cluster.old cluster.new (AllLeaveAgendas cluster.old) result }
{
    let count = cluster.count();
    let mut moved = false;
    for place in 0..count {
        cluster.is_going();
        let name = cluster.name_at(place);
        let did = cluster.perform(place, &name)?;
        moved = either(moved, did);
    }
    Ok(moved)
}

/// Every member does all its tasks, or refuses them, but those of which what refuses them will pass: whether there were
/// any.
fn finish_all(cluster: &mut Cluster) -> Result<bool, OutOfMemory>
    ensures { FinishesOrRests cluster.old cluster.new (AllLeaveAgendas cluster.old) result }
{
    if !perform_each(cluster)? {
        return Ok(false);
    }
    'tasks: loop {
        if !perform_each(cluster)? {
            return Ok(true);
        }
    }
}

fn either(one: bool, other: bool) -> bool
    ensures { result ≡ (one || other) }
{
    one || other
}

/// Every member takes one turn of its own work: whether any did something.
fn pass(cluster: &mut Cluster) -> Result<bool, OutOfMemory>
    ensures { DoesOrRests cluster.old cluster.new (AllRest (state_of cluster.old)) result }
{
    let count = cluster.count();
    let mut moved = false;
    for place in 0..count {
        let did = work_turn(cluster, place)?;
        moved = either(moved, did);
    }
    Ok(moved)
}

/// The members work until none has anything left to do.
#[tactic(auto, using(crate::proofs::rounds::Turning::works_trans, crate::proofs::rounds::Turning::works_refl))]
fn work_out(cluster: &mut Cluster) -> Result<(), OutOfMemory>
    ensures works { Works cluster.old cluster.new }
    ensures rests { OnOk result (AllRest (state_of cluster.new)) }
{
    'passes: loop {
        cluster.is_going();
        if !pass(cluster)? {
            return Ok(());
        }
    }
}

/// The members work, and all tasks are done or refused, in turns until there are none: who joins takes up its state
/// while the others work.
#[tactic(auto, using(crate::proofs::rounds::Turning::draining))]
pub(crate) fn drain(cluster: &mut Cluster) -> Result<(), OutOfMemory>
    ensures round { TakesRound cluster.old cluster.new }
    ensures empty { OnOk result (AgendasAreEmpty cluster.new) }
    ensures rests { OnOk result (AllRest (state_of cluster.new)) }
{
    'drains: loop {
        work_out(cluster)?;
        cluster.is_going();
        if !finish_all(cluster)? {
            return Ok(());
        }
    }
}
