//! The numbers that a member keeps of an origin.

use crate::member::Member;
use activity::{KeptNumbers, Load};
use group_view::MOST_MEMBERS;
use ordered_link::{LinkIn, LinkPair};
use ring_names::MemberId;

impl<O: LinkPair<Load, In = I>, I: LinkIn<Load> + Drop> Member<O, I> {
    ghost use Rattle.std.specs.Prelude.{◌≡◌, ◌-◌, ◌≤◌};
    ghost use Rattle.activity.specs.Kept.{got_of};
    ghost use Rattle.gm_member.specs.Packets.{known_at};
    ghost use Rattle.gm_member.specs.Shown.{held_of};

    /// Up to which number the member has received the messages of an origin; of itself how many it has published. 0
    /// of an id that no member has.
    pub fn got(&self, of: MemberId) -> u64
        requires { 1 ≤ of.0 }
        ensures { result ≡ got_of (known_at (held_of self.now).known (of.0 - 1)) }
    {
        self.numbers_of(of).got
    }

    /// Behind which number the member receives the messages of an origin: 0 of a member of the opening, and of one
    /// that joined the number of its first packet. 0 of an id that no member has.
    pub fn base(&self, of: MemberId) -> u64
        requires { 1 ≤ of.0 }
        ensures { result ≡ (known_at (held_of self.now).known (of.0 - 1)).base }
    {
        self.numbers_of(of).base
    }

    /// The numbers that the member keeps of an origin: zeros of an id that no member has.
    pub fn numbers_of(&self, of: MemberId) -> KeptNumbers
        requires { 1 ≤ of.0 }
        ensures got { result.got ≡ got_of (known_at (held_of self.now).known (of.0 - 1)) }
        ensures forgot { result.forgot ≡ (known_at (held_of self.now).known (of.0 - 1)).forgot }
        ensures retired { result.retired ≡ (known_at (held_of self.now).known (of.0 - 1)).retired }
        ensures base { result.base ≡ (known_at (held_of self.now).known (of.0 - 1)).base }
    {
        if of.0 > MOST_MEMBERS as u32 {
            return KeptNumbers {
                got: 0,
                forgot: 0,
                retired: 0,
                base: 0,
            };
        }
        self.tables.numbers(of)
    }
}
