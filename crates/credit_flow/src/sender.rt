//! The sender's end of a link.
ghost use Rattle.std.specs.Prelude.{◌≡◌, ◌<◌, ◌≤◌};
ghost use Rattle.credit_flow.specs.Credit.{cleared, full_credit, gained, is_blocked, sent};

use ring_names::CreditSpec;
use std::marker::Model;

/// What a sender may still send on a link, in loads.
#[derive(Drop, Debug)]
pub struct CreditOut {
    spec: CreditSpec,
    credit: u32,
}

impl Model for CreditOut {
    ghost use Rattle.std.specs.Prelude.{◌≤◌};
    ghost use Rattle.credit_flow.specs.Credit.{Credit};

    ghost Value = { Credit };

    ghost view = { λ c. record { initial = c.spec.initial; more = c.spec.more; credit = c.credit } };

    ghost invariant = { λ c. c.credit ≤ c.spec.initial };
}

impl CreditOut {
    /// A sender that has its whole initial credit.
    pub fn new(spec: CreditSpec) -> CreditOut
        ensures { result ≡ full_credit spec.initial spec.more }
    {
        CreditOut {
            spec,
            credit: spec.initial,
        }
    }

    /// Whether nothing may be sent until a grant comes: no credit is left.
    pub fn blocked(&self) -> bool
        ensures answer { result ≡ is_blocked self.now }
        ensures within { (self.now).credit ≤ (self.now).initial }
    {
        self.credit == 0
    }

    /// Spends one on a load, as `credit_flow:send`.
    pub fn send(&mut self)
        requires { 0 < (self.old).credit }
        ensures { self.new ≡ sent self.old }
    {
        self.credit -= 1;
    }

    /// Takes a grant. No credit is above the initial one; in a run no grant would make it so.
    pub fn gain(&mut self, amount: u32)
        ensures { self.new ≡ gained self.old amount }
    {
        let room = self.spec.initial - self.credit;
        self.credit += amount.min(room);
    }

    /// Forgets what was spent on a peer that is dead, as `credit_flow:peer_down`: the sender stands as for
    /// a new link.
    pub fn peer_down(&mut self)
        ensures cleared { self.new ≡ cleared self.old }
        ensures anew { self.new ≡ full_credit (self.old).initial (self.old).more }
    {
        self.credit = self.spec.initial;
    }
}
