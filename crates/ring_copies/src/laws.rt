//! The laws of a ring with copies, over all runs.
ghost use Rattle.std.specs.Prelude.{ℕ, ◌+◌, List, length, ◌<◌, ◌≤◌, All};
ghost use Rattle.queue_core.specs.Queue.{greatest};
ghost use Rattle.ring_names.specs.declared.numbers.CreditSpec.{CreditSpec};
ghost use Rattle.group_view.specs.Change.{AreOpeningNames};
ghost use Rattle.ring_rules.specs.Step.{opening};
ghost use Rattle.ring_rules.specs.Laws.{GoesOn, IdleIsQuiet};
ghost use Rattle.ring_rules.specs.Bounded.{IsBounded};
ghost use Rattle.ring_rules.specs.Work.{total};
ghost use Rattle.ring_rules.specs.Settling.{EachRepairLeavesLess, AreRepairs as RingRepairs, Settles};
ghost use Rattle.ring_rules.specs.QueueLaws.{QueueIsRight, LaterMastersStart};
ghost use Rattle.ring_rules.specs.declared.event.Event.{Event};
ghost use Rattle.ring_copies.specs.Runs.{IsRun, last, without_copies, AreRepairs, NothingLeft};
ghost use Rattle.ring_copies.specs.Laws.{IsLawfulWithCopies, IsQuietWithCopies};
ghost use Rattle.ring_copies.specs.Work.{total_with_copies};

/// However masters copy their queue to mirrors while members join, stop, are marked dead and erased: the ring is lawful
/// as it is without copies, and each copy keeps its credit, whether it is over or not.
pub fn every_state_is_lawful_with_copies()
    ensures { (credit : CreditSpec) (names : List (List ℕ)) (events : List Event)
        → AreOpeningNames names → IsRun (without_copies (opening credit names)) events
        → IsLawfulWithCopies credit.initial (last (without_copies (opening credit names)) events) }
{}

/// From a state to each later one no log is cut and no number falls, and what is heard meanwhile is what follows.
pub fn nothing_falls_with_copies()
    ensures { (credit : CreditSpec) (names : List (List ℕ)) (earlier later : List Event)
        → AreOpeningNames names → IsRun (without_copies (opening credit names)) earlier
        → IsRun (last (without_copies (opening credit names)) earlier) later
        → GoesOn (last (without_copies (opening credit names)) earlier).ring
        (last (last (without_copies (opening credit names)) earlier) later).ring }
{}

/// A later master publishes Start before anything else, a mark too.
pub fn later_masters_start_first_with_copies()
    ensures { (credit : CreditSpec) (names : List (List ℕ)) (events : List Event)
        → AreOpeningNames names → IsRun (without_copies (opening credit names)) events
        → LaterMastersStart (last (without_copies (opening credit names)) events).ring }
{}

/// Whatever is copied, to whom and when: of what two members have seen of the queue one is the beginning of the other, and
/// each mirror that a copy has made holds the queue; and each message that has come round, and that nobody has
/// acknowledged, stands in every synchronised mirror of a member that is up, one that a copy made too.
pub fn every_queue_is_right_with_copies()
    ensures { (credit : CreditSpec) (names : List (List ℕ)) (events : List Event)
        → AreOpeningNames names → length events < greatest
        → IsRun (without_copies (opening credit names)) events
        → QueueIsRight (length events) (last (without_copies (opening credit names)) events).ring }
{}

/// Of steps of repair, of the ring and of its copies, no more can follow each other than `total_with_copies` says.
pub fn repairs_end_with_copies()
    ensures { (credit : CreditSpec) (names : List (List ℕ)) (events steps : List Event)
        → AreOpeningNames names → IsRun (without_copies (opening credit names)) events
        → AreRepairs (last (without_copies (opening credit names)) events) steps
        → length steps ≤ total_with_copies (last (without_copies (opening credit names)) events) }
{}

/// And where none of them is enabled, the ring is quiet, and no copy is under way at a running member: no running master
/// has something to put, and no running mirror something to take.
pub fn where_nothing_is_left_all_is_quiet_with_copies()
    ensures { (credit : CreditSpec) (names : List (List ℕ)) (events : List Event)
        → AreOpeningNames names → length events < greatest
        → IsRun (without_copies (opening credit names)) events
        → NothingLeft (last (without_copies (opening credit names)) events)
        → IsQuietWithCopies (last (without_copies (opening credit names)) events) }
{}

/// What the ring by itself has still to do, beside the copies in it, goes on as without them: where nobody has anything to
/// do it is quiet; each step of repair leaves less; of these no more can follow each other than `total` says; and by them
/// it becomes quiet.
pub fn a_ring_settles_beside_copies()
    ensures idle { (credit : CreditSpec) (names : List (List ℕ)) (events : List Event)
        → AreOpeningNames names → length events < greatest → IsRun (without_copies (opening credit names)) events
        → IdleIsQuiet (last (without_copies (opening credit names)) events).ring }
    ensures repair { (credit : CreditSpec) (names : List (List ℕ)) (events : List Event)
        → AreOpeningNames names → IsRun (without_copies (opening credit names)) events
        → EachRepairLeavesLess (last (without_copies (opening credit names)) events).ring }
    ensures ends { (credit : CreditSpec) (names : List (List ℕ)) (events steps : List Event)
        → AreOpeningNames names → IsRun (without_copies (opening credit names)) events
        → RingRepairs (last (without_copies (opening credit names)) events).ring steps
        → length steps ≤ total (last (without_copies (opening credit names)) events).ring }
    ensures settles { (credit : CreditSpec) (names : List (List ℕ)) (events : List Event)
        → AreOpeningNames names
        → length events + total (last (without_copies (opening credit names)) events).ring < greatest
        → IsRun (without_copies (opening credit names)) events
        → Settles (last (without_copies (opening credit names)) events).ring }
{}

/// Each version that a member reads is from 1 to 255, and each number that a client is told from 6 to 44, with copies too.
pub fn every_number_is_bounded_with_copies()
    ensures { (credit : CreditSpec) (names : List (List ℕ)) (events : List Event)
        → AreOpeningNames names → IsRun (without_copies (opening credit names)) events
        → All IsBounded events }
{}
