//! Both ends of a ring pair beside each other.
ghost use Rattle.std.specs.Prelude.{◌≡◌, ◌+◌, ◌++◌, length};
ghost use Rattle.rtrb.specs.Ring.{sent, received, known_items, known_free, producer_capacity};
ghost use Rattle.rtrb.specs.Ring.{IsPair, ProducerLooked, ConsumerLooked};
ghost use Rattle.ordered_link.specs.RingSteps.{AreRingEnds, RingMeets};

use crate::ring::{RingIn, RingOut};
use rtrb::{Consumer, Producer};

/// Lets both ends of a ring pair know all that the link and its way back hold, and how many slots are
/// free. A grant that waits is sent, where the way back has room. Nothing else moves, and no memory is
/// taken.
pub fn ring_meet<T>(out: &mut RingOut<T>, link: &mut RingIn<T>)
    requires { AreRingEnds out.old link.old }
    ensures { RingMeets out.old link.old out.new link.new }
{
    look_both(&mut out.items, &mut link.items);
    link.back.slots_beside(&mut out.back);
    link.send_late();
    look_both(&mut link.back, &mut out.back);
}

// Lets both ends of one ring know what it holds and how many slots are free.
fn look_both<T>(producer: &mut Producer<T>, consumer: &mut Consumer<T>)
    requires { IsPair producer.old consumer.old }
    ensures producer { ProducerLooked producer.old producer.new }
    ensures consumer { ConsumerLooked consumer.old consumer.new }
    ensures items { received consumer.new ++ known_items consumer.new ≡ sent producer.new }
    ensures free { known_free producer.new + length (known_items consumer.new) ≡ producer_capacity producer.new }
{
    let held = consumer.slots_beside(producer);
    producer.slots_beside(consumer);
    if consumer.cached_slots() != held {
        // one more look would show more items than were sent
        consumer.slots_beside(producer);
        unreachable!()
    }
}
