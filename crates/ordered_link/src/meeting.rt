//! Both ends of a plain pair beside each other.
ghost use Rattle.std.specs.Prelude.{◌≡◌, ◌+◌, ◌≤◌, ◌++◌, []};
ghost use Rattle.std.specs.Vec.{vec_len, vec_capacity};
ghost use Rattle.ordered_link.specs.Steps.{HaveRoom, PlainMeets};

use crate::plain::{PlainIn, PlainOut};

/// Moves the items that wait in `out` behind those of `link`, moves the grants the other way, and tells
/// each end how many slots are free. It takes no memory. A grant that waits in `link` stays there until
/// the next `take` or `peek`.
pub fn meet<T>(out: &mut PlainOut<T>, link: &mut PlainIn<T>)
    requires { HaveRoom out.old link.old }
    ensures { PlainMeets out.old link.old out.new link.new }
{
    move_all(&mut link.items, &mut out.waiting);
    move_all(&mut out.back, &mut link.given);
    out.free = out.initial + 1 - link.items.len();
    link.free = link.initial - out.back.len();
}

fn move_all<T>(to: &mut Vec<T>, from: &mut Vec<T>)
    requires { vec_len to.old + vec_len from.old ≤ vec_capacity to.old }
    ensures items { to.new.items ≡ to.old.items ++ from.old.items }
    ensures len { vec_len to.new ≡ vec_len to.old + vec_len from.old }
    ensures moved { (from.new.items ≡ []) × (vec_len from.new ≡ 0) }
    ensures capacity { (vec_capacity to.old ≤ vec_capacity to.new)
        × (vec_capacity from.new ≡ vec_capacity from.old) }
{
    if to.append(from).is_err() {
        unreachable!()
    }
}
