//! The receiver's end of a link.
ghost use Rattle.std.specs.Prelude.{◌≡◌, ◌≤◌};
ghost use Rattle.std.specs.Bool.{OnFalse};
ghost use Rattle.credit_flow.specs.Credit.{grant_due, holding_back, none_taken, released, took};

use ring_names::CreditSpec;
use std::marker::Model;

/// What a receiver has taken of a link since its last grant, and the grants that it holds back while it
/// is blocked itself.
#[derive(Drop, Debug)]
pub struct CreditIn {
    spec: CreditSpec,
    taken: u32,
    holding: bool,
    held: u32,
}

impl Model for CreditIn {
    ghost use Rattle.credit_flow.specs.Credit.{Counted};

    ghost Value = { Counted };

    ghost view = { λ c. record {
      initial = c.spec.initial;
      more = c.spec.more;
      taken = c.taken;
      holding = c.holding;
      held = c.held;
    } };

    ghost use Rattle.credit_flow.specs.Counts.{IsCounted};

    ghost invariant = { IsCounted };
}

impl CreditIn {
    /// A receiver that has taken nothing and holds nothing back.
    pub fn new(spec: CreditSpec) -> CreditIn
        ensures { result ≡ none_taken spec.initial spec.more }
    {
        CreditIn {
            spec,
            taken: 0,
            holding: false,
            held: 0,
        }
    }

    /// Counts a load that was taken, as `credit_flow:ack`, and answers the grant that goes back now.
    pub fn took(&mut self) -> Option<u32>
        ensures answer { result ≡ grant_due self.old }
        ensures counted { self.new ≡ took self.old }
    {
        self.taken += 1;
        if self.taken < self.spec.more {
            return None;
        }
        self.taken = 0;
        if self.holding {
            self.held = self.spec.initial.min(self.held + self.spec.more);
            return None;
        }
        Some(self.spec.more)
    }

    /// Holds the grants back from now on: the receiver is blocked itself.
    pub fn hold(&mut self)
        ensures { self.new ≡ holding_back self.old }
    {
        self.holding = true;
    }

    /// Holds no grant back from now on, and answers the sum of those held, which goes back as one grant
    /// unless it is 0.
    pub fn release(&mut self) -> u32
        ensures sum { result ≡ (self.old).held }
        ensures within { result ≤ (self.old).initial }
        ensures none { OnFalse (self.old).holding (result ≡ 0) }
        ensures released { self.new ≡ released self.old }
    {
        let held = self.held;
        self.holding = false;
        self.held = 0;
        held
    }
}
