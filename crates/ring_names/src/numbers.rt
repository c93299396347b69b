//! Ids, positions, stamps and credit.
ghost use Rattle.std.specs.Prelude.{◌≡◌, ◌≤◌, ◌↔◌, IsSome, IfSome};

/// The id of a member, from 1 in the order of admission: a smaller one is older.
#[derive(Clone, Copy, PartialEq, Eq, PartialOrd, Ord, Hash, Debug)]
pub struct MemberId(pub u32);

/// The position of a message in the queue, from 1: its message id.
#[derive(Clone, Copy, PartialEq, Eq, PartialOrd, Ord, Hash, Debug)]
pub struct Position(pub u64);

/// When a party did a step: the number of the round, the party's clock in it, and the party.
/// Party 0 is the registrar, the others are members by their ids.
#[derive(Clone, Copy, PartialEq, Eq, Debug)]
pub struct Stamp {
    /// The number of the round, from 1.
    pub round: u32,
    /// The party's clock in that round.
    pub time: u32,
    /// 0 for the registrar, else a member's id.
    pub party: u32,
}

/// The credit of a link, as `credit_flow` has it: a sender begins with `initial`, and its receiver
/// grants `more` after each `more` messages. At most 64.
#[derive(Clone, Copy, PartialEq, Eq, Debug)]
pub struct CreditSpec {
    /// The messages that a sender may send before the first grant.
    pub initial: u32,
    /// The messages that a grant is for, and after which it comes.
    pub more: u32,
    ghost positive: { 1 ≤ more },
    ghost covered: { more ≤ initial },
    ghost small: { initial ≤ 64 },
}

impl CreditSpec {
    /// The specification with these two numbers, where they make one.
    pub fn new(initial: u32, more: u32) -> Option<CreditSpec>
        ensures exact { IsSome result ↔ ((1 ≤ more) × (more ≤ initial) × (initial ≤ 64)) }
        ensures initial { IfSome result (λ spec. spec.initial ≡ initial) }
        ensures more { IfSome result (λ spec. spec.more ≡ more) }
    {
        if more >= 1 && more <= initial && initial <= 64 {
            Some(CreditSpec { initial, more })
        } else {
            None
        }
    }
}
