//! A gate at which two members meet.
use crate::gate::{BEFORE, Gate};
use ring_names::MemberId;
use std::sync::atomic::{AtomicBool, Ordering};
use std::thread;

/// Holds the first turns of two members up until both have begun: a round that gives each member its turns on its
/// own passes it only where the two go side by side. Who looks for the other in vain goes on. It takes no memory.
#[derive(Drop)]
pub struct MeetGate {
    a: Side,
    b: Side,
    turns: u64,
}

impl MeetGate {
    /// A gate for members `a` and `b`, to which neither has come. The first turn of each waits until the other's
    /// has begun, for at most `turns` looks; between two looks others may have the processor.
    pub fn new(a: MemberId, b: MemberId, turns: u64) -> MeetGate {
        MeetGate {
            a: Side::new(a),
            b: Side::new(b),
            turns,
        }
    }

    /// Whether each of the two saw the other come.
    pub fn met(&self) -> bool {
        self.a.saw.load(Ordering::SeqCst) && self.b.saw.load(Ordering::SeqCst)
    }
}

impl Gate for MeetGate {
    fn pass(&self, who: MemberId, kind: u8) {
        if kind != BEFORE {
            return;
        }
        if who == self.a.who {
            self.a.come(&self.b, self.turns);
        } else if who == self.b.who {
            self.b.come(&self.a, self.turns);
        }
    }
}

/// One of the two members.
#[derive(Drop)]
struct Side {
    who: MemberId,
    // Whether its first turn has begun, and whether it saw then that the other's had, too.
    came: AtomicBool,
    saw: AtomicBool,
}

impl Side {
    fn new(who: MemberId) -> Side {
        Side {
            who,
            came: AtomicBool::new(false),
            saw: AtomicBool::new(false),
        }
    }

    /// It comes, and the first time it looks for the other, at most so often.
    fn come(&self, other: &Side, turns: u64) {
        if self.came.swap(true, Ordering::SeqCst) {
            return;
        }
        for _ in 0..turns {
            if other.came.load(Ordering::SeqCst) {
                self.saw.store(true, Ordering::SeqCst);
                return;
            }
            thread::yield_now();
        }
    }
}
