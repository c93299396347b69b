//! The laws of mirrors, and of what a master answers.
ghost use Rattle.std.specs.Prelude.{◌≡◌, ℕ, Bool, true, List, [], ◌++◌};
ghost use Rattle.group_view.specs.View.{Group};
ghost use Rattle.queue_core.specs.declared.op.Op.{Op};
ghost use Rattle.queue_core.specs.Queue.{QueueState, is_above};
ghost use Rattle.queue_core.specs.Legal.{queue_of, are_legal};
ghost use Rattle.queue_mirror.specs.Mirror.{MirrorState};
ghost use Rattle.queue_mirror.specs.Master.{AnswersLegal};
ghost use Rattle.queue_mirror.specs.Laws.{HoldsWhatCame, HoldsFromCopy, HoldTheSame};

/// Where the operations are legal, a mirror that was there from the opening holds the queue and lacks nothing; one
/// that joined behind the first of them holds just what was published since, and knows how many items it lacks from
/// the first operation on that tells the number of all.
pub fn a_mirror_holds_what_came()
    ensures { (l n : List Op) → are_legal [] (l ++ n) ≡ true → HoldsWhatCame l n }
{}

/// Where the operations are legal, a mirror that was given a copy of the queue holds the queue from then on, and lacks
/// nothing.
pub fn a_copied_mirror_holds_the_queue()
    ensures { (q : QueueState) (l n : List Op)
        → q.items ≡ queue_of l → are_legal [] (l ++ n) ≡ true → HoldsFromCopy q l n }
{}

/// Where the operations are legal, two mirrors that have taken as far hold the same once each lacks nothing, wherever
/// their members joined.
pub fn full_mirrors_hold_the_same()
    ensures { (l n j k : List Op) → are_legal [] (l ++ n) ≡ true → HoldTheSame l n j k }
{}

/// What a master answers by its mirror is an operation that it may publish there.
pub fn a_master_answers_legal_operations()
    ensures { (m : MirrorState) (g : Group) (me : ℕ) (started : Bool)
        → is_above m.queue.next m.queue.items ≡ true → AnswersLegal m g me started }
{}
