//! How a new master starts.
ghost use Rattle.std.specs.Prelude.{◌≡◌, length};

use queue_core::{Op, Queue};

/// What a master of a later term publishes first: a Start with the depth of its queue, counting what is ready and
/// what is handed out. By it each mirror makes ready again what was handed out, and knows how many messages it
/// lacks. It wants no memory. As `promote_backing_queue_state` of `rabbit_mirror_queue_master`, which requeues
/// what was handed out and broadcasts the depth.
pub fn start_op(queue: &Queue) -> Op
    ensures { result ≡ Op.Start (length (queue.now).queue.items) }
{
    Op::Start {
        depth: queue.depth(),
    }
}
