//! The laws of books.
ghost use Rattle.std.specs.Prelude.{◌≡◌, ℕ, ◌≤◌, max, List, [], ◌∷◌, ◌++◌, length, take, drop};
ghost use Rattle.confirm_book.specs.declared.kind.Kind.{Kind};
ghost use Rattle.confirm_book.specs.Book.{Ledger, new_ledger, KeepsAll, published, newly, came_round};
ghost use Rattle.confirm_book.specs.Book.{IsBookOf, totals_of, totals_in};
ghost use Rattle.confirm_book.specs.Calls.{Call, IsCalls, after, log_of, confirmed_by};

/// The book of a log stays that log's book: it begins so, where a message is published both have it more, where
/// messages come round so many are confirmed, and where room is made nothing changes. What is newly confirmed
/// then are the log's messages behind those that were.
pub fn a_book_is_of_its_log()
    ensures begins { (spare : ℕ) → IsBookOf [] 0 (new_ledger spare) }
    ensures published { (log : List Kind) (confirmed : ℕ) (kind : Kind) (b : Ledger)
        → IsBookOf log confirmed b → IsBookOf (log ++ kind ∷ []) confirmed (published kind b) }
    ensures came_round { (log : List Kind) (confirmed to : ℕ) (b : Ledger)
        → IsBookOf log confirmed b → to ≤ length log → IsBookOf log (max to confirmed) (came_round to b) }
    ensures kept { (log : List Kind) (confirmed : ℕ) (a b : Ledger)
        → IsBookOf log confirmed a → KeepsAll a b → IsBookOf log confirmed b }
    ensures newly { (log : List Kind) (confirmed to : ℕ) (b : Ledger)
        → IsBookOf log confirmed b → newly to b ≡ drop confirmed (take to log) }
{}

/// Whatever is published and however far it comes round, the totals count the messages that were published by
/// kind, and of them those that have come round.
pub fn the_totals_count_what_is_confirmed()
    ensures { (spare : ℕ) (calls : List Call) → IsCalls (new_ledger spare) calls
        → totals_of (after (new_ledger spare) calls) ≡ totals_in (confirmed_by calls) (log_of calls) }
{}
