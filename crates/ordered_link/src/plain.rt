//! The plain pair: two ends that share no memory. What is put waits in the out end until the ends
//! meet, and so do grants in the in end.
ghost use Rattle.std.specs.Prelude.{◌≡◌, ◌+◌, ◌<◌, ◌≤◌, false};
ghost use Rattle.std.specs.Vec.{vec_len, vec_capacity};

use crate::ends::{LinkIn, LinkOut, LinkPair};
use crate::grant::Grant;
use crate::item::{EndReason, Item};
use ring_names::{CreditSpec, OutOfMemory, Stamp};
use std::alloc::Global;

/// The end of a plain pair that puts.
#[derive(Drop, Debug)]
pub struct PlainOut<T> {
    pub(crate) waiting: Vec<Item<T>>,
    pub(crate) back: Vec<Grant>,
    pub(crate) initial: usize,
    pub(crate) free: usize,
    pub(crate) ended: bool,
    ghost small: { initial ≤ 64 },
    ghost fits: { (initial < vec_capacity waiting) × (initial ≤ vec_capacity back) },
    ghost bound: { vec_len waiting + free ≤ initial + 1 },
    ghost kept: { ended ≡ false → 0 < free },
}

/// The end of a plain pair that takes.
#[derive(Drop, Debug)]
pub struct PlainIn<T> {
    pub(crate) items: Vec<Item<T>>,
    pub(crate) given: Vec<Grant>,
    pub(crate) initial: usize,
    pub(crate) free: usize,
    pub(crate) late: Option<Grant>,
    ghost small: { initial ≤ 64 },
    ghost fits: { (initial < vec_capacity items) × (initial ≤ vec_capacity given) },
    ghost bound: { vec_len given + free ≤ initial },
}

impl<T> LinkOut<T> for PlainOut<T> {
    ghost use Rattle.ordered_link.specs.Steps.{PlainPuts, PlainGains};

    ghost free = { λ e. e.free };

    ghost ended = { λ e. e.ended };

    ghost grants = { λ e. e.back.items };

    ghost puts = { PlainPuts };

    ghost gains = { PlainGains };

    ghost looked = { λ a b. b ≡ a };

    fn put(&mut self, load: T) -> Result<(), T> {
        if self.free <= 1 {
            return Err(load);
        }
        self.free -= 1;
        self.waiting.push_reserved(Item::Load(load));
        Ok(())
    }

    fn end(&mut self, reason: EndReason, stamp: Stamp) {
        self.free -= 1;
        self.waiting.push_reserved(Item::End { reason, stamp });
        self.ended = true;
    }

    fn granted(&mut self) -> Option<Grant> {
        if self.back.is_empty() {
            return None;
        }
        Some(self.back.remove(0))
    }

    fn has_grant(&mut self) -> bool {
        !self.back.is_empty()
    }
}

impl<T> PlainOut<T> {
    ghost use Rattle.std.specs.Prelude.{◌≡◌, ◌<◌, [], true, false, length};

    /// Whether a grant has come back that was not taken yet.
    pub fn has_back(&self) -> bool
        ensures some { result ≡ true → 0 < length (self.now).back.items }
        ensures none { result ≡ false → (self.now).back.items ≡ [] }
    {
        !self.back.is_empty()
    }
}

impl<T> PlainIn<T> {
    ghost use Rattle.std.specs.Prelude.{◌≡◌, ◌<◌, ◌∷◌, [], None, List, MatchOption};
    ghost use Rattle.ordered_link.specs.declared.item.Item.{Item as One};
    ghost use Rattle.ordered_link.specs.Steps.{PlainSent};

    /// The oldest item that has come and was not taken yet.
    pub fn first(&self) -> Option<&Item<T>>
        ensures { MatchOption result ((self.now).items.items ≡ [])
            (λ x. (rest : List (One T)) × ((self.now).items.items ≡ x.now ∷ rest)) }
    {
        self.items.first()
    }

    // Sends the grant that waits, where the way back has room.
    fn send_late(&mut self)
        ensures items { self.new.items ≡ self.old.items }
        ensures given { PlainSent self.old self.new }
        ensures sent { 0 < self.old.free → self.new.late ≡ None }
    {
        if let Some(grant) = self.late {
            if self.free > 0 {
                self.free -= 1;
                self.given.push_reserved(grant);
                self.late = None;
            }
        }
    }
}

impl<T> LinkIn<T> for PlainIn<T> {
    ghost use Rattle.ordered_link.specs.Steps.{PlainTakes, PlainSends, PlainLooked};

    ghost known = { λ e. e.items.items };

    ghost waiting = { λ e. e.late };

    ghost room = { λ e. e.free };

    ghost takes = { PlainTakes };

    ghost sends = { PlainSends };

    ghost looked = { PlainLooked };

    fn take(&mut self) -> Option<Item<T>> {
        self.send_late();
        if self.late.is_some() || self.items.is_empty() {
            return None;
        }
        Some(self.items.remove(0))
    }

    fn peek(&mut self) -> Option<&Item<T>> {
        self.send_late();
        if self.late.is_some() {
            return None;
        }
        self.items.first()
    }

    fn grant(&mut self, grant: Grant) {
        self.late = Some(grant);
        self.send_late();
    }

    fn waits(&self) -> bool {
        self.late.is_some()
    }
}

impl<T: Drop> LinkPair<T> for PlainOut<T> {
    ghost use Rattle.ordered_link.specs.Steps.{ArePlainEnds, IsFreshPair};

    type In = PlainIn<T>;

    ghost are_ends = { ArePlainEnds };

    ghost are_fresh = { IsFreshPair };

    fn pair(alloc: Global, spec: CreditSpec) -> Result<(PlainOut<T>, PlainIn<T>), OutOfMemory> {
        let initial = spec.initial as usize;
        let out = PlainOut {
            waiting: Vec::with_capacity(alloc, initial + 1)?,
            back: Vec::with_capacity(alloc, initial)?,
            initial,
            free: initial + 1,
            ended: false,
        };
        let link = PlainIn {
            items: Vec::with_capacity(alloc, initial + 1)?,
            given: Vec::with_capacity(alloc, initial)?,
            initial,
            free: initial,
            late: None,
        };
        Ok((out, link))
    }
}
