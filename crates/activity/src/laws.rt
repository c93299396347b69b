//! The laws of packets, whatever is sent and kept.
ghost use Rattle.std.specs.Prelude.{◌≡◌, ℕ, ◌≤◌, Bool, true, false, Some, None, List, [], cond, nat_eq};
ghost use Rattle.queue_core.specs.declared.message.Message.{Message};
ghost use Rattle.activity.specs.Kept.{Kept, KeptRow, got_of, kept_of, joined, KeepsRows};
ghost use Rattle.activity.specs.LastSent.{LastSent, LastSentRow, sent_of, KeepsSent};
ghost use Rattle.activity.specs.Packets.{LineSeen, line_of, noted};
ghost use Rattle.activity.specs.Diff.{next_line, IsNotAbove};
ghost use Rattle.activity.specs.Plan.{fits, accepted};
ghost use Rattle.activity.specs.Laws.{marks_of, taken_marks, IsPartOf, IsLineOf};

/// A packet, followed by its plan, leaves the taker of each line that is used with the absolute numbers of
/// the sender: of an origin for which it answers as what has come round, of any other as its own. What it
/// keeps of an origin of which the packet has no line, or whose line isn't used, stays. Where both keep the
/// messages of one log between their numbers, so does the taker afterwards.
pub fn a_packet_and_its_plan_give_the_numbers()
    ensures used { (own first : Bool) (p : ℕ) (s k : Kept) (t : LastSent) (c : LineSeen)
        → next_line first p s t ≡ Some c → t.got ≤ got_of s → fits own k c ≡ true
        → marks_of (accepted own k (Some c)) ≡ taken_marks own (marks_of k) s }
    ensures none { (own : Bool) (k : Kept) → accepted own k None ≡ k }
    ensures passed { (own : Bool) (k : Kept) (c : LineSeen) → fits own k c ≡ false → accepted own k (Some c) ≡ k }
    ensures sent { (log : List Message) (first : Bool) (p : ℕ) (s : Kept) (t : LastSent) (c : LineSeen)
        → next_line first p s t ≡ Some c → t.got ≤ got_of s → IsPartOf log s → IsLineOf log c }
    ensures taken { (log : List Message) (own : Bool) (k : Kept) (c : LineSeen)
        → IsLineOf log c → IsPartOf log k → IsPartOf log (accepted own k (Some c)) }
{}

/// No more is ever sent of an origin than is kept of it: not at first, nor once the packet that `diff` made is
/// noted, once a message joined, once room was made, or once a packet was applied.
pub fn no_more_is_sent_than_is_kept()
    ensures none { (rows : List KeptRow) → IsNotAbove [] rows }
    ensures noted { (first : Bool) (old new : List LastSentRow) (rows : List KeptRow) (lines : List LineSeen)
        → IsNotAbove old rows
        → ((p : ℕ) → line_of lines p ≡ next_line first p (kept_of rows p) (sent_of old p))
        → ((p : ℕ) → sent_of new p ≡ noted (line_of lines p) (sent_of old p)) → IsNotAbove new rows }
    ensures joined { (sent : List LastSentRow) (old new : List KeptRow) (id : ℕ) (m : Message)
        → ((p : ℕ) → kept_of new p ≡ cond (nat_eq p id) (joined m (kept_of old p)) (kept_of old p))
        → IsNotAbove sent old → IsNotAbove sent new }
    ensures kept { (sent : List LastSentRow) (old new : List KeptRow)
        → KeepsRows old new → IsNotAbove sent old → IsNotAbove sent new }
    ensures same { (old new : List LastSentRow) (rows : List KeptRow)
        → KeepsSent old new → IsNotAbove old rows → IsNotAbove new rows }
    ensures applied { (sent : List LastSentRow) (old new : List KeptRow) (own : ℕ → Bool) (lines : List LineSeen)
        → ((p : ℕ) → kept_of new p ≡ accepted (own p) (kept_of old p) (line_of lines p))
        → IsNotAbove sent old → IsNotAbove sent new }
{}
