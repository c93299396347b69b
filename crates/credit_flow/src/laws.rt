//! The law of one link, over all lists of calls.
ghost use Rattle.std.specs.Prelude.{ℕ, ◌≤◌, List};
ghost use Rattle.credit_flow.specs.Link.{Call, IsCalls, KeepsCredit, after, new_link};

/// However the two ends of a link are called, from its opening on, the credit that is left, the loads on
/// the link, those counted since the last grant, the grants under way and the sum held back are together
/// the initial credit. So no link ever holds more loads than that, no grant makes more of it, and a sender
/// that stays blocked with nothing under way waits for a receiver that holds its grants back. Where a peer
/// dies the list ends, and the next link begins anew.
pub fn credit_is_kept()
    ensures { (initial more : ℕ) (calls : List Call) → 1 ≤ more → more ≤ initial
        → IsCalls (new_link initial more) calls → KeepsCredit initial (after (new_link initial more) calls) }
{}
