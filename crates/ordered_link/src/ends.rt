//! The two ends of a link. A link has `initial + 1` slots for items, of which one is kept for `End`,
//! and its way back has `initial` slots for grants. What an end knows of the other's steps may be
//! old: an item may stand on the link before its receiver knows it, and a slot may be free before its
//! sender does.
ghost use Rattle.std.specs.Prelude.{◌≡◌, ℕ, ◌+◌, ◌<◌, ◌≤◌, Bool, true, false, List, [], ◌∷◌, ◌++◌, length, IfOk};
ghost use Rattle.std.specs.Prelude.{OnOk, IfErr, IsOk, IfSome, IfNone, IsSome, None, Option, MatchOption};
ghost use Rattle.std.specs.Prelude.{IsTrue, ◌↔◌, ⊤};
ghost use Rattle.std.specs.Borrow.{sem};
ghost use denote.Follow.{follows_so};
ghost use mathlib.Core.Option.{none};
ghost use mathlib.Core.List.{IsPrefix};
ghost use Rattle.ordered_link.specs.declared.grant.Grant.{Grant};
ghost use Rattle.ordered_link.specs.declared.item.Item.{Item};
ghost use Rattle.ordered_link.specs.declared.item.EndReason.{EndReason};
ghost use Rattle.ring_names.specs.declared.numbers.Stamp.{Stamp};

use crate::grant::Grant;
use crate::item::{EndReason, Item};
use ring_names::{CreditSpec, OutOfMemory, Stamp};
use std::alloc::Global;

/// The end that puts items on a link. Its calls take no memory.
pub trait LinkOut<T> {
    /// How many slots the end knows to be free, the one kept for `End` among them.
    ghost free: { Self → ℕ };

    /// Whether `End` was put.
    ghost ended: { Self → Bool };

    /// The grants that the end knows to have come back, oldest first.
    ghost grants: { Self → List Grant };

    /// `puts a x b`: the item x was put, and a became b.
    ghost puts: { Self → Item T → Self → Type 0 };

    /// `gains a g b`: the grant g was taken, and a became b.
    ghost gains: { Self → Grant → Self → Type 0 };

    /// `looked a b`: no item was put and no grant taken; b may know more.
    ghost looked: { Self → Self → Type 0 };

    /// Puts a load after all that were put, or hands it back: only where the end knew no free slot at
    /// this step beside the one kept for `End`.
    fn put(&mut self, load: T) -> Result<(), T>
        requires { ended self.old ≡ false }
        ensures ok { OnOk result (puts self.old (Item.Load load) self.new) }
        ensures full { IfErr result (λ back.
            (back ≡ load) × looked self.old self.new × (free self.new ≤ 1)) }
        ensures succeeds { 1 < free self.old → IsOk result }
        ensures open { ended self.new ≡ false };

    /// Puts `End` after all that were put, with the stamp of this step. There is always room for it.
    fn end(&mut self, reason: EndReason, stamp: Stamp)
        requires { ended self.old ≡ false }
        ensures put { puts self.old (Item.End reason stamp) self.new }
        ensures ended { ended self.new ≡ true };

    /// The oldest grant that came back and was not taken yet: none only where the end knew none at this
    /// step.
    fn granted(&mut self) -> Option<Grant>
        ensures some { IfSome result (λ g. gains self.old g self.new) }
        ensures none { IfNone result (looked self.old self.new × (grants self.new ≡ [])) }
        ensures ended { ended self.new ≡ ended self.old }
        ensures succeeds { 0 < length (grants self.old) → IsSome result };

    /// Whether `granted` has a grant to give; it stays where it is.
    fn has_grant(&mut self) -> bool
        ensures looked { looked self.old self.new }
        ensures some { IsTrue result → 0 < length (grants self.new) }
        ensures none { result ≡ false → grants self.new ≡ [] }
        ensures ended { ended self.new ≡ ended self.old }
        ensures succeeds { 0 < length (grants self.old) → IsTrue result };
}

/// The end that takes items off a link. Its calls take no memory.
pub trait LinkIn<T> {
    /// The items that the end knows to be on the link, oldest first.
    ghost known: { Self → List (Item T) };

    /// The grant that waits in the end, if one does.
    ghost waiting: { Self → Option Grant };

    /// How many slots of the way back the end knows to be free.
    ghost room: { Self → ℕ };

    /// `takes a x b`: the item x was taken, and a became b. A grant that waited may have gone.
    ghost takes: { Self → Item T → Self → Type 0 };

    /// `sends a g b`: the caller granted g, which has gone or waits, and a became b.
    ghost sends: { Self → Grant → Self → Type 0 };

    /// `looked a b`: no item was taken and nothing granted. A grant that waited may have gone, and b may
    /// know more.
    ghost looked: { Self → Self → Type 0 };

    /// Sends the grant that waits, and takes the oldest item: none only where the end knew none at this
    /// step, or where the grant still waits.
    fn take(&mut self) -> Option<Item<T>>
        ensures some { IfSome result (λ x. takes self.old x self.new × (waiting self.new ≡ None)) }
        ensures first { IfSome result (λ x. IsPrefix (known self.old) (x ∷ known self.new)) }
        ensures none { IfNone result
            (looked self.old self.new × ((waiting self.new ≡ None) → known self.new ≡ [])) }
        ensures succeeds { 0 < length (known self.old) → waiting self.old ≡ None → IsSome result }
        ensures sent { 0 < room self.old → waiting self.new ≡ None }
        ensures none_waited { waiting self.old ≡ None → waiting self.new ≡ None };

    /// Sends the grant that waits, and shows the item that `take` would give: none where `take` would
    /// give none.
    fn peek(&mut self) -> Option<&Item<T>>
        // what holds of the end once the item is let go
        ensures* after { sem 𝓛 (follows_so Self.row Self.row self.entry.ghost_name none (λ _ _. ⊤) (λ n.
            looked self.old n
            × (0 < room self.old → waiting n ≡ None)
            × (waiting self.old ≡ None → waiting n ≡ None)
            × MatchOption result
            ((waiting n ≡ None) → known n ≡ [])
            (λ r. IsPrefix (r.now ∷ []) (known n) × (waiting n ≡ None)))) }
        ensures succeeds { 0 < length (known self.old) → waiting self.old ≡ None → IsSome result };

    /// Sends a grant back. Where the way back has no room it waits in the end, and `take` and `peek`
    /// send it before they look.
    fn grant(&mut self, grant: Grant)
        requires { waiting self.old ≡ None }
        ensures granted { sends self.old grant self.new }
        ensures sent { 0 < room self.old → waiting self.new ≡ None };

    /// Whether a grant waits in the end.
    fn waits(&self) -> bool
        ensures { IsTrue result ↔ IsSome (waiting self.now) };
}

/// An end that puts, made together with the end that takes.
pub trait LinkPair<T>: LinkOut<T> + Drop {
    type In: LinkIn<T> + Drop;

    /// The two are the ends of one link.
    ghost are_ends: { Self → Self.In → Type 0 };

    /// `are_fresh n a b`: nothing was put, taken or granted, and there are n slots for loads.
    ghost are_fresh: { ℕ → Self → Self.In → Type 0 };

    /// A link with `initial` slots for loads and one for `End`. All memory that it will use is taken here.
    fn pair(alloc: Global, spec: CreditSpec) -> Result<(Self, Self::In), OutOfMemory>
        ensures ends { IfOk result (λ r. are_ends r.0 r.1) }
        ensures fresh { IfOk result (λ r. are_fresh spec.initial r.0 r.1) }
        ensures out { IfOk result (λ r.
            (Self.free r.0 ≡ spec.initial + 1) × (Self.ended r.0 ≡ false) × (Self.grants r.0 ≡ [])) }
        ensures link { IfOk result (λ r. (Self.In.known r.1 ≡ [])
            × (Self.In.waiting r.1 ≡ None) × (Self.In.room r.1 ≡ spec.initial)) };
}
