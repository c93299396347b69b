//! The laws of the ring, over all runs.
ghost use Rattle.std.specs.Prelude.{ℕ, List, length, All, ◌+◌, ◌≤◌, ◌<◌};
ghost use Rattle.queue_core.specs.Queue.{greatest};
ghost use Rattle.ring_names.specs.declared.numbers.CreditSpec.{CreditSpec};
ghost use Rattle.group_view.specs.Change.{AreOpeningNames};
ghost use Rattle.ring_rules.specs.declared.event.Event.{Event};
ghost use Rattle.ring_rules.specs.Step.{opening};
ghost use Rattle.ring_rules.specs.Bounded.{IsBounded};
ghost use Rattle.ring_rules.specs.Compact.{IsCompact};
ghost use Rattle.ring_rules.specs.Event.{IsRun, last};
ghost use Rattle.ring_rules.specs.Laws.{IsLawful, GoesOn, IdleIsQuiet};
ghost use Rattle.ring_rules.specs.QueueLaws.{QueueIsRight, LaterMastersStart};
ghost use Rattle.ring_rules.specs.Quiet.{IsQuiet};
ghost use Rattle.ring_rules.specs.Settling.{EachRepairLeavesLess, AreRepairs, NothingLeft, Settles};
ghost use Rattle.ring_rules.specs.Work.{total};

/// However members join and stop, are marked dead and erased, refresh late and pick up links, every state that the
/// ring reaches is lawful. Going twice round the ring from the owner of an origin, past the packets on the links
/// between the members, the numbers for that origin never rise; so no take of a member that is up leaves a gap, but
/// for origins that the member answers for against the sender; each member has heard of each publisher just its
/// messages in their order, each once, from a number on that isn't later than its own admission; what has come round
/// to a publisher, running or stopped, each member that is up has received, or counted by its first packet, and of
/// that it has heard all that was published after its admission; of an erased origin nobody says anything different;
/// each view, also one that an election or a registration made, says of each entry since when its left neighbour has
/// been it; and the links go from left neighbours to right ones, each in its time, and what is put on them fits into
/// the walks, as specs/LinksStand.antt says part by part.
pub fn every_state_is_lawful()
    ensures { (credit : CreditSpec) (names : List (List ℕ)) (events : List Event)
        → AreOpeningNames names → IsRun (opening credit names) events
        → IsLawful credit.initial (last (opening credit names) events) }
{}

/// From a state to each later one, through deaths, admissions and repair, logs only grow, no number falls, and what a
/// member hears meanwhile is what follows in the publisher's log: nothing that was received is taken back or received
/// again. What is erased stays so, and a master leads until it is erased.
pub fn nothing_falls_through_deaths()
    ensures { (credit : CreditSpec) (names : List (List ℕ)) (earlier later : List Event)
        → AreOpeningNames names → IsRun (opening credit names) earlier
        → IsRun (last (opening credit names) earlier) later
        → GoesOn (last (opening credit names) earlier) (last (last (opening credit names) earlier) later) }
{}

/// In every state that a ring reaches each packet of a link goes on where the one before it ended, and those of its
/// lines that say something new, taken alone, do all that the packet does. So a member may send these lines alone.
pub fn packets_may_be_compact()
    ensures { (credit : CreditSpec) (names : List (List ℕ)) (events : List Event)
        → AreOpeningNames names → IsRun (opening credit names) events
        → IsCompact (last (opening credit names) events) }
{}

/// Where no running member has anything to do, as an event of its own, the ring is quiet: nobody waits, all that was
/// published has come round, and no entry is dead; whoever misses nothing of the queue is registered as synchronised;
/// and where the master runs, it has started if it leads in a later term, and every running member knows how many
/// messages its mirror lacks. So what isn't at rest goes on by itself.
pub fn an_idle_ring_is_quiet()
    ensures { (credit : CreditSpec) (names : List (List ℕ)) (events : List Event)
        → AreOpeningNames names → length events < greatest → IsRun (opening credit names) events
        → IdleIsQuiet (last (opening credit names) events) }
{}

/// The steps by which members go on and gm repairs the ring after deaths and admissions: a put, a take, the first
/// take of a member that waits, the take of a link's end, a gain, a pick, the refresh of a stale member to the newest
/// view, a mark, and an erasure; and of the queue a start, the registration of one that misses nothing, and a telling
/// where there is somebody to tell. In every state that a ring reaches, each of them that is enabled leaves the ring with
/// less to do, as `work` counts it in a list of numbers, and `total` in one.
pub fn each_step_of_repair_leaves_less_to_do()
    ensures { (credit : CreditSpec) (names : List (List ℕ)) (events : List Event)
        → AreOpeningNames names → IsRun (opening credit names) events
        → EachRepairLeavesLess (last (opening credit names) events) }
{}

/// However a ring is left, with deaths unmarked, members that wait and messages on their way: of events of repair no
/// more can follow each other than `total` says; where none is left after some of them, the ring is quiet; and it
/// comes to that.
pub fn every_ring_settles()
    ensures ends { (credit : CreditSpec) (names : List (List ℕ)) (events steps : List Event)
        → AreOpeningNames names → IsRun (opening credit names) events
        → AreRepairs (last (opening credit names) events) steps
        → length steps ≤ total (last (opening credit names) events) }
    ensures quiet { (credit : CreditSpec) (names : List (List ℕ)) (events steps : List Event)
        → AreOpeningNames names → length events + length steps < greatest
        → IsRun (opening credit names) events
        → AreRepairs (last (opening credit names) events) steps
        → NothingLeft (last (last (opening credit names) events) steps)
        → IsQuiet (last (last (opening credit names) events) steps) }
    ensures settles { (credit : CreditSpec) (names : List (List ℕ)) (events : List Event)
        → AreOpeningNames names → length events + total (last (opening credit names) events) < greatest
        → IsRun (opening credit names) events
        → Settles (last (opening credit names) events) }
{}

/// However members join, stop, are erased and become master: of what two members have seen of the queue one is the
/// beginning of the other, every operation is legal where it stands, each mirror holds just what was published since its
/// member joined, and a synchronised one holds the queue; and each message that has come round, and that nobody has
/// acknowledged, stands in every synchronised mirror of a member that is up.
pub fn every_queue_is_right()
    ensures { (credit : CreditSpec) (names : List (List ℕ)) (events : List Event)
        → AreOpeningNames names → length events < greatest → IsRun (opening credit names) events
        → QueueIsRight (length events) (last (opening credit names) events) }
{}

/// A later master publishes Start before anything else: only member 1 leads in the first term, and whatever any other
/// has published to the queue begins with Start.
pub fn later_masters_start_first()
    ensures { (credit : CreditSpec) (names : List (List ℕ)) (events : List Event)
        → AreOpeningNames names → IsRun (opening credit names) events
        → LaterMastersStart (last (opening credit names) events) }
{}

/// However a ring goes, each version that a member reads is from 1 to 255, and each number that a client is told from 6
/// to 44: so whoever writes a run down meets no greater ones.
pub fn every_number_is_bounded()
    ensures { (credit : CreditSpec) (names : List (List ℕ)) (events : List Event)
        → AreOpeningNames names → IsRun (opening credit names) events
        → All IsBounded events }
{}
