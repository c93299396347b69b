//! The ring pair: two ends of two rings, one for items and one for the grants that go back. Each end may
//! stand in a thread of its own. An end acts on what it knows, and learns more only where it is told to
//! look, or meets its other end.
ghost use Rattle.std.specs.Prelude.{◌≡◌, ◌<◌, false, true};
ghost use Rattle.rtrb.specs.Ring.{sent, known_free};
ghost use Rattle.ordered_link.specs.Form.{is_in_form};

use crate::ends::{LinkIn, LinkOut, LinkPair};
use crate::grant::Grant;
use crate::item::{EndReason, Item};
use ring_names::{CreditSpec, OutOfMemory, Stamp};
use rtrb::{Consumer, Producer, RingBuffer};
use std::alloc::Global;

/// The end of a ring pair that puts.
pub struct RingOut<T> {
    pub(crate) items: Producer<Item<T>>,
    pub(crate) back: Consumer<Grant>,
    pub(crate) initial: usize,
    pub(crate) ended: bool,
    ghost kept: { ended ≡ false → 0 < known_free items },
    ghost in_form: { is_in_form ended (sent items) ≡ true },
}

impl<T: Drop> Drop for RingOut<T> {
    fn drop(self) {
        let RingOut {
            items: _,
            back: _,
            initial: _,
            ended: _,
        } = self;
    }
}

/// The end of a ring pair that takes.
#[derive(Drop)]
pub struct RingIn<T> {
    pub(crate) items: Consumer<Item<T>>,
    pub(crate) back: Producer<Grant>,
    pub(crate) initial: usize,
    pub(crate) late: Option<Grant>,
}

impl<T> LinkOut<T> for RingOut<T> {
    ghost use Rattle.std.specs.Prelude.{◌≡◌};
    ghost use Rattle.rtrb.specs.Ring.{known_free, known_items};
    ghost use Rattle.ordered_link.specs.RingSteps.{RingPuts, RingGains};

    ghost free = { λ e. known_free e.items };

    ghost ended = { λ e. e.ended };

    ghost grants = { λ e. known_items e.back };

    ghost puts = { RingPuts };

    ghost gains = { RingGains };

    ghost looked = { λ a b. b ≡ a };

    #[tactic(auto, using(crate::proofs::Forms::in_form_rules))]
    fn put(&mut self, load: T) -> Result<(), T> {
        if self.items.cached_slots() <= 1 {
            return Err(load);
        }
        self.items.push_reserved(Item::Load(load));
        Ok(())
    }

    #[tactic(auto, using(crate::proofs::Forms::in_form_rules))]
    fn end(&mut self, reason: EndReason, stamp: Stamp) {
        self.items.push_reserved(Item::End { reason, stamp });
        self.ended = true;
    }

    fn granted(&mut self) -> Option<Grant> {
        if self.back.cached_slots() == 0 {
            return None;
        }
        Some(self.back.pop_known())
    }

    fn has_grant(&mut self) -> bool {
        self.back.cached_slots() > 0
    }
}

impl<T> RingOut<T> {
    ghost use Rattle.std.specs.Prelude.{◌≡◌, ◌<◌, ◌∷◌, [], true, false, length, List, MatchOption};
    ghost use Rattle.rtrb.specs.Ring.{known_items};
    ghost use Rattle.ordered_link.specs.declared.grant.Grant.{Grant as Back};
    ghost use Rattle.ordered_link.specs.RingSteps.{RingLooked};

    /// Whether the end knows of a grant that has come back and was not taken yet.
    pub fn has_back(&self) -> bool
        ensures some { result ≡ true → 0 < length (known_items (self.now).back) }
        ensures none { result ≡ false → known_items (self.now).back ≡ [] }
    {
        self.back.cached_slots() > 0
    }

    /// The oldest grant that the end knows to have come back; it stays there.
    pub fn first_back(&self) -> Option<Grant>
        ensures { MatchOption result (known_items (self.now).back ≡ [])
            (λ g. (rest : List Back) × (known_items (self.now).back ≡ g ∷ rest)) }
    {
        if self.back.cached_slots() == 0 {
            return None;
        }
        Some(*self.back.peek_known())
    }

    /// Looks at the rings: more slots may be known to be free, and more grants to have come back.
    pub fn look(&mut self)
        ensures { RingLooked self.old self.new }
    {
        self.items.slots();
        self.back.slots();
    }
}

impl<T> RingIn<T> {
    ghost use Rattle.std.specs.Prelude.{◌≡◌, ◌<◌, ◌∷◌, [], None, List, MatchOption, nat_lt};
    ghost use Rattle.rtrb.specs.Ring.{known_items, known_free};
    ghost use Rattle.ordered_link.specs.declared.item.Item.{Item as One};
    ghost use Rattle.ordered_link.specs.RingSteps.{RingSent, RingLookedIn};

    /// The oldest item that the end knows to have come and that was not taken yet.
    pub fn first(&self) -> Option<&Item<T>>
        ensures { MatchOption result (known_items (self.now).items ≡ [])
            (λ x. (rest : List (One T)) × (known_items (self.now).items ≡ x.now ∷ rest)) }
    {
        if self.items.cached_slots() == 0 {
            return None;
        }
        Some(self.items.peek_known())
    }

    /// Whether the end knows of a free slot on the way back.
    pub fn has_room(&self) -> bool
        ensures { result ≡ nat_lt 0 (known_free (self.now).back) }
    {
        self.back.cached_slots() > 0
    }

    /// Looks at the rings: more items may be known, and more slots of the way back to be free.
    pub fn look(&mut self)
        ensures { RingLookedIn self.old self.new }
    {
        self.items.slots();
        self.back.slots();
    }

    // Sends the grant that waits, where the way back is known to have room.
    pub(crate) fn send_late(&mut self)
        ensures items { self.new.items ≡ self.old.items }
        ensures given { RingSent self.old self.new }
        ensures sent { 0 < known_free self.old.back → self.new.late ≡ None }
        ensures none_waited { self.old.late ≡ None → self.new.late ≡ None }
    {
        if let Some(grant) = self.late {
            if self.back.cached_slots() > 0 {
                self.back.push_reserved(grant);
                self.late = None;
            }
        }
    }
}

impl<T> LinkIn<T> for RingIn<T> {
    ghost use Rattle.rtrb.specs.Ring.{known_free, known_items};
    ghost use Rattle.ordered_link.specs.RingSteps.{RingTakes, RingSends, RingWaited};

    ghost known = { λ e. known_items e.items };

    ghost waiting = { λ e. e.late };

    ghost room = { λ e. known_free e.back };

    ghost takes = { RingTakes };

    ghost sends = { RingSends };

    ghost looked = { RingWaited };

    fn take(&mut self) -> Option<Item<T>> {
        self.send_late();
        if self.late.is_some() || self.items.cached_slots() == 0 {
            return None;
        }
        Some(self.items.pop_known())
    }

    fn peek(&mut self) -> Option<&Item<T>> {
        self.send_late();
        if self.late.is_some() || self.items.cached_slots() == 0 {
            return None;
        }
        Some(self.items.peek_known())
    }

    fn grant(&mut self, grant: Grant) {
        self.late = Some(grant);
        self.send_late();
    }

    fn waits(&self) -> bool {
        self.late.is_some()
    }
}

impl<T: Drop> LinkPair<T> for RingOut<T> {
    ghost use Rattle.ordered_link.specs.RingSteps.{AreRingEnds, IsFreshRingPair};

    type In = RingIn<T>;

    ghost are_ends = { AreRingEnds };

    ghost are_fresh = { IsFreshRingPair };

    fn pair(alloc: Global, spec: CreditSpec) -> Result<(RingOut<T>, RingIn<T>), OutOfMemory> {
        let initial = spec.initial as usize;
        let (there, taken) = RingBuffer::new(alloc, initial + 1)?;
        let (given, back) = RingBuffer::new(alloc, initial)?;
        let out = RingOut {
            items: there,
            back,
            initial,
            ended: false,
        };
        let link = RingIn {
            items: taken,
            back: given,
            initial,
            late: None,
        };
        Ok((out, link))
    }
}
