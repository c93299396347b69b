//! The law of stores, whatever is done with one.
ghost use Rattle.std.specs.Prelude.{◌≡◌, ℕ, ◌-◌, ◌<◌, ◌≤◌, List, [], ◌∷◌, ◌++◌, length, slice_index_or};
ghost use Rattle.pending_store.specs.Store.{Pending, got_of, messages_between, kept_between, StartsAt};
ghost use Rattle.pending_store.specs.Store.{KeepsAll, Gains, ForgetsTo, IsSliceOf, IsNext};

/// A store that is the slice of its origin's log between its numbers stays one: where it starts at a number
/// that the log has reached, where the log gains messages, where the store gains the log's next message, and
/// where it forgets. What it copies and shows are then the log's messages of these numbers.
pub fn a_slice_of_the_log_stays_one<T>()
    ensures starts { (log : List T) (at : ℕ) (s : Pending T)
        → StartsAt at s → at ≤ length log → IsSliceOf log s }
    ensures grows { (log more : List T) (s : Pending T) → IsSliceOf log s → IsSliceOf (log ++ more) s }
    ensures kept { (log : List T) (s t : Pending T) → IsSliceOf log s → KeepsAll s t → IsSliceOf log t }
    ensures gains { (log : List T) (message : T) (s t : Pending T)
        → IsSliceOf log s → IsNext log (got_of s) message → Gains s message t → IsSliceOf log t }
    ensures publishes { (log : List T) (message : T) (s t : Pending T)
        → IsSliceOf log s → got_of s ≡ length log → Gains s message t → IsSliceOf (log ++ message ∷ []) t }
    ensures forgets { (log : List T) (to : ℕ) (s t : Pending T)
        → IsSliceOf log s → s.forgot ≤ to → to ≤ got_of s → ForgetsTo s to t → IsSliceOf log t }
    ensures answers { (log : List T) (from to : ℕ) (s : Pending T)
        → IsSliceOf log s → s.forgot ≤ from → from ≤ to → to ≤ got_of s
        → kept_between from to s ≡ messages_between from to log }
    ensures shows { (log : List T) (number : ℕ) (s : Pending T) (other : T)
        → IsSliceOf log s → s.forgot < number → number ≤ got_of s
        → slice_index_or s.messages (number - s.forgot - 1) other ≡ slice_index_or log (number - 1) other }
{}
