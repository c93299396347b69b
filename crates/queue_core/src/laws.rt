//! The laws of queues.
ghost use Rattle.std.specs.Prelude.{◌≡◌, ℕ, true, false, List, ◌++◌};
ghost use Rattle.std.specs.List.{list_any};
ghost use Rattle.ring_names.specs.declared.numbers.Position.{Position};
ghost use Rattle.queue_core.specs.declared.op.Op.{Op};
ghost use Rattle.queue_core.specs.declared.op.Op.TheVariants.{Publish, Deliver, Drop, Ack, Requeue};
ghost use Rattle.queue_core.specs.Queue.{Item, QueueState, apply, takes, is_ready_at, is_unacked_at, rises};
ghost use Rattle.queue_core.specs.Legal.{queue_of, run, remains, are_legal};

/// The items of a queue stand in the order of their positions, whatever the operations.
pub fn items_stand_in_order()
    ensures { (l : List Op) → rises (queue_of l) ≡ true }
{}

/// A hand-out and a drop of a position that isn't ready change nothing, nor do an acknowledgement and a return of one
/// that isn't handed out, nor does a message whose position isn't above all that are held, or is the greatest number.
pub fn what_does_not_fit_changes_nothing()
    ensures publish { (at : Position) (body : List ℕ) (q : QueueState)
        → takes at.0 q.items ≡ false → apply (Publish at body) q ≡ q }
    ensures deliver { (at : Position) (q : QueueState)
        → list_any (is_ready_at at.0) q.items ≡ false → apply (Deliver at) q ≡ q }
    ensures drop { (at : Position) (q : QueueState)
        → list_any (is_ready_at at.0) q.items ≡ false → apply (Drop at) q ≡ q }
    ensures ack { (at : Position) (q : QueueState)
        → list_any (is_unacked_at at.0) q.items ≡ false → apply (Ack at) q ≡ q }
    ensures requeue { (at : Position) (q : QueueState)
        → list_any (is_unacked_at at.0) q.items ≡ false → apply (Requeue at) q ≡ q }
{}

/// What stood before legal operations and what they bring are two queues behind one another: what the operations leave
/// of the first, and the second by itself.
pub fn what_stood_and_what_came()
    ensures { (before since : List Item) (l : List Op)
        → are_legal (before ++ since) l ≡ true → run (before ++ since) l ≡ remains l before ++ run since l }
{}
