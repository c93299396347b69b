//! The laws of pairs, over all that is done with one.
ghost use Rattle.std.specs.Prelude.{◌≡◌, ℕ, ◌+◌, ◌≤◌, ◌↔◌, List, length, false, true};
ghost use Rattle.rtrb.specs.Ring.{sent, known_free, known_items};
ghost use Rattle.ordered_link.specs.declared.grant.Grant.{Grant};
ghost use Rattle.ordered_link.specs.declared.item.Item.{Item};
ghost use Rattle.ordered_link.specs.declared.plain.PlainIn.{PlainIn};
ghost use Rattle.ordered_link.specs.declared.plain.PlainOut.{PlainOut};
ghost use Rattle.ordered_link.specs.declared.ring.RingIn.{RingIn};
ghost use Rattle.ordered_link.specs.declared.ring.RingOut.{RingOut};
ghost use Rattle.ordered_link.specs.Names.{in_pair, out_pair};
ghost use Rattle.ordered_link.specs.RingSteps.{AreRingEnds, IsFreshRingPair, RingsHaveMet};
ghost use Rattle.ordered_link.specs.RingRuns.{AreRingSteps, RingKeepsOrder};
ghost use Rattle.ordered_link.specs.Rounds.{Balances, Grew};
ghost use Rattle.ordered_link.specs.Runs.{AreLoads, AreLoadsThenEnd, AreSteps, KeepsOrder, Step};
ghost use Rattle.ordered_link.specs.Steps.{ArePlainEnds, HaveMet, HaveRoom, IsFreshPair};

/// Whatever is done with a pair that was fresh, what was taken, followed by what the link holds, is what
/// was put, in its order: nothing is lost, and nothing comes twice. `End` is put last and once. The grants
/// come back likewise.
pub fn every_link_keeps_its_order<T>()
    ensures { (n : ℕ) (out out' : PlainOut T) (link link' : PlainIn T) (steps : List (Step T))
        → IsFreshPair n out link → AreSteps steps out link out' link' → KeepsOrder steps out' link' }
{}

/// So it is of a ring pair: what was taken, followed by what the in end knows once the ends have met, is what
/// was put, in its order, with `End` last and once. The ends stay ends of one link, so they may always meet.
pub fn every_ring_link_keeps_its_order<T>()
    ensures { (n : ℕ) (out out' : RingOut T) (link link' : RingIn T) (steps : List (Step T))
        → IsFreshRingPair n out link → AreRingSteps steps out link out' link' → RingKeepsOrder steps out' link' }
{}

/// The ends of one pair stay ends of one pair, and ends of one pair may always meet.
pub fn ends_may_always_meet<T>()
    ensures stay { (out out' : PlainOut T) (link link' : PlainIn T) (steps : List (Step T))
        → ArePlainEnds out link → AreSteps steps out link out' link' → ArePlainEnds out' link' }
    ensures meet { (out : PlainOut T) (link : PlainIn T) → ArePlainEnds out link → HaveRoom out link }
{}

/// Where the ends have met, the out end knows no free slot but that for `End` exactly where the link holds
/// `initial` items: there `put` is refused, and only there. A fresh pair has met. So it is of ring ends, whose
/// in end then knows all that the link holds.
pub fn ends_that_met_are_exact<T>()
    ensures full { (out : PlainOut T) (link : PlainIn T)
        → HaveMet out link → out.ended ≡ false → ((out.free ≤ 1) ↔ (length link.items.items ≡ link.initial)) }
    ensures fresh { (n : ℕ) (out : PlainOut T) (link : PlainIn T) → IsFreshPair n out link → HaveMet out link }
    ensures ends { (out : PlainOut T) (link : PlainIn T) → HaveMet out link → ArePlainEnds out link }
    ensures full_ring { (out : RingOut T) (link : RingIn T) → RingsHaveMet out link → out.ended ≡ false
        → ((known_free out.items ≤ 1) ↔ (length (known_items link.items) ≡ out.initial)) }
    ensures fresh_ring { (n : ℕ) (out : RingOut T) (link : RingIn T)
        → IsFreshRingPair n out link → RingsHaveMet out link × AreRingEnds out link }
{}

/// Where the ends of a ring pair have met before a round and after it, what the link held and what was put
/// in it is what was taken and what the link holds, in order: the k-th item taken is the k-th one put. So it
/// is of the grants.
pub fn a_round_balances_each_link<T>()
    ensures { (out out' : RingOut T) (link link' : RingIn T) (puts takes : List (Item T)) (gives gains : List Grant)
        → RingsHaveMet out link → Grew out link out' link' puts takes gives gains → RingsHaveMet out' link'
        → Balances out link out' link' puts takes gives gains }
{}

/// All that was ever put at the out end of a ring pair are loads while the link is open, and once it has
/// ended loads and then `End`, once.
pub fn every_ring_link_ends_once<T>()
    ensures loads { (out : RingOut T) → out.ended ≡ false → AreLoads (sent out.items) }
    ensures ended { (out : RingOut T) → out.ended ≡ true → AreLoadsThenEnd (sent out.items) }
{}

/// The rings' names tell which pair an end belongs to: no step changes it, the ends of one link have one
/// name, and ends of one name and one size are the ends of one link.
pub fn every_ring_end_keeps_its_name<T>()
    ensures kept { (out out' : RingOut T) (link link' : RingIn T) (steps : List (Step T))
        → AreRingSteps steps out link out' link'
        → (out_pair out' ≡ out_pair out) × (in_pair link' ≡ in_pair link) }
    ensures one { (out : RingOut T) (link : RingIn T) → AreRingEnds out link → in_pair link ≡ out_pair out }
    ensures ends { (out : RingOut T) (link : RingIn T) → in_pair link ≡ out_pair out → link.initial ≡ out.initial
        → (out_pair out).slots ≡ out.initial + 1 → AreRingEnds out link }
{}
