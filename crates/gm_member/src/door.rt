//! The links at a member's door.
ghost use Rattle.std.specs.Prelude.{◌≡◌, ◌+◌, ◌<◌, ◌≤◌, ◌∷◌, ◌++◌, ◌&&◌, ◌||◌, List, true, nat_eq, nat_le};
ghost use Rattle.std.specs.Prelude.{length, map, position, vec_len, vec_capacity, IfSome};
ghost use Rattle.group_view.specs.Ring.{is_in};
ghost use Rattle.ring_rules.specs.View.{ids};
ghost use Rattle.gm_member.specs.declared.links.InLink.{InLink as Link};
ghost use Rattle.gm_member.specs.Held.{is_for as is_the_neighbours, stays as the_stays};
ghost use Rattle.gm_member.specs.View.{in_of, left_link, kept_one, left_one, kept_links, left_links};

use crate::links::InLink;
use crate::views::{left, since, version};
use group_view::{LinkName, View};
use ring_names::MemberId;

/// Whether a link comes from the left neighbour of an entry, which was that already when the link opened.
pub(crate) fn is_for<I>(view: &View, id: MemberId, link: &InLink<I>) -> bool
    requires { is_in id.0 (ids view.now) ≡ true }
    ensures { result ≡ is_the_neighbours view.now id.0 (in_of link.now) }
{
    link.from.0 == left(view, id).0 && since(view, id) <= link.opened
}

/// Whether a link at the door of an entry stays there: it does, or is newer than the view.
pub(crate) fn stays<I>(view: &View, id: MemberId, link: &InLink<I>) -> bool
    requires { is_in id.0 (ids view.now) ≡ true }
    ensures { result ≡ the_stays view.now id.0 (in_of link.now) }
{
    version(view) < link.opened || is_for(view, id, link)
}

/// The end of a link that is left joins those that were left.
pub(crate) fn leave<I: Drop>(left: &mut Vec<(LinkName, I)>, id: MemberId, link: InLink<I>)
    requires { vec_len left.old < vec_capacity left.old }
    ensures items { left.new.items ≡ left.old.items ++ left_link id.0 link }
    ensures len { vec_len left.new ≤ vec_len left.old + 1 }
    ensures room { vec_capacity left.old ≤ vec_capacity left.new }
{
    let name = link.name(id);
    if let Some(end) = link.end {
        match left.push((name, end)) {
            Ok(()) => {}
            Err(_full) => unreachable!(),
        }
    }
}

/// The first link of a door goes to the door's end where it stays there, else its end joins those that were left.
fn judge<I: Drop>(
    view: &View,
    id: MemberId,
    door: &mut Vec<InLink<I>>,
    left: &mut Vec<(LinkName, I)>,
)
    requires stands { is_in id.0 (ids view.now) ≡ true }
    requires some { 0 < vec_len door.old }
    requires room { vec_len left.old < vec_capacity left.old }
    ensures judged { (first : Link I) (rest : List (Link I)) → door.old.items ≡ first ∷ rest
        → (door.new.items ≡ rest ++ kept_one view.now id.0 first)
        × (left.new.items ≡ left.old.items ++ left_one view.now id.0 first) }
    ensures fewer { vec_len left.new + vec_len door.new ≤ vec_len left.old + vec_len door.old }
    ensures room { vec_capacity left.old ≤ vec_capacity left.new }
{
    let link = door.remove(0);
    if stays(view, id, &link) {
        match door.push(link) {
            Ok(()) => {}
            Err(_full) => unreachable!(),
        }
    } else {
        leave(left, id, link);
    }
}

/// The links of a door that don't stay there are left.
pub(crate) fn prune<I: Drop>(
    view: &View,
    id: MemberId,
    door: &mut Vec<InLink<I>>,
    left: &mut Vec<(LinkName, I)>,
)
    requires stands { is_in id.0 (ids view.now) ≡ true }
    requires room { vec_len left.old + vec_len door.old ≤ vec_capacity left.old }
    ensures door { door.new.items ≡ kept_links view.now id.0 door.old.items }
    ensures left { left.new.items ≡ left.old.items ++ left_links view.now id.0 door.old.items }
    ensures fewer { vec_len left.new + vec_len door.new ≤ vec_len left.old + vec_len door.old }
    ensures room { vec_capacity left.old ≤ vec_capacity left.new }
{
    let count = door.len();
    for _link in 0..count {
        judge(view, id, door, left);
    }
}

/// The place of the first link of a door that comes from the left neighbour.
pub(crate) fn first_for<I>(view: &View, id: MemberId, door: &[InLink<I>]) -> Option<usize>
    requires { is_in id.0 (ids view.now) ≡ true }
    ensures place { result ≡ position (is_the_neighbours view.now id.0) (map in_of door.now) }
    ensures within { IfSome result (λ i. i < length door.now) }
{
    let from = left(view, id);
    let start = since(view, id);
    position_of(door, from, start)
}

fn position_of<I>(door: &[InLink<I>], from: MemberId, start: u32) -> Option<usize>
    ensures place { result ≡ position (λ link. nat_eq link.from.0 from.0 && nat_le start link.opened) door.now }
    ensures within { IfSome result (λ i. i < length door.now) }
{
    door.iter()
        .position(|link| link.from.0 == from.0 && start <= link.opened)
}
