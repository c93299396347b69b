//! What a member's view says, and what stands at its door.
ghost use Rattle.std.specs.Prelude.{◌≡◌, ◌+◌, ◌<◌, ◌≤◌, suc, ◌∷◌, true, length, position};
ghost use Rattle.std.specs.Prelude.{IfSome, slice_index_or};
ghost use Rattle.group_view.specs.Change.{most_entries};
ghost use Rattle.group_view.specs.Since.{no_group};
ghost use Rattle.ring_rules.specs.View.{left_of as the_left, right_of as the_right};
ghost use Rattle.ring_rules.specs.Machine.{member_at, view_in, is_kept_of, newest as the_newest};
ghost use Rattle.ring_rules.specs.Event.{left_neighbour as the_left_neighbour, is_neighbour as neighbours};
ghost use Rattle.ring_rules.specs.Event.{at_door as the_door};
ghost use Rattle.ring_world.specs.Placed.{IsPlaced, IsUpAt};
ghost use Rattle.ring_world.specs.Shows.{world_of, link_of, stands_at_door};

use crate::plain_link::PlainLink;
use crate::state::Ring;
use group_view::View;
use ring_names::MemberId;

/// The id of the member at a place.
pub(crate) fn id_at(place: usize) -> u32
    requires { place < most_entries + 1 }
    ensures { result ≡ suc place }
{
    place as u32 + 1
}

/// The left neighbour of an entry.
pub(crate) fn left_in(view: &View, id: u32) -> u32
    ensures { result ≡ the_left view.now id }
{
    view.left_of(MemberId(id)).0
}

/// The right neighbour of an entry.
pub(crate) fn right_in(view: &View, id: u32) -> u32
    ensures { result ≡ the_right view.now id }
{
    view.right_of(MemberId(id)).0
}

/// The view of a version.
#[tactic(auto, using(crate::proofs::code::ShownParts::view_read))]
pub(crate) fn view_of(views: &[View], version: u32) -> &View
    requires some { 1 ≤ version }
    requires within { version ≤ length views.now }
    ensures { result.now ≡ slice_index_or (no_group ∷ views.now) version no_group }
{
    &views[version as usize - 1]
}

/// The newest version.
pub(crate) fn newest(ring: &Ring) -> u32
    requires { IsPlaced (world_of ring.now) }
    ensures { result ≡ the_newest (world_of ring.now) }
{
    ring.views.len() as u32
}

/// The newest view.
pub(crate) fn newest_view(ring: &Ring) -> &View
    requires { IsPlaced (world_of ring.now) }
    ensures { result.now ≡ view_in (world_of ring.now) (the_newest (world_of ring.now)) }
{
    view_of(&ring.views, newest(ring))
}

/// The view that the member at a place has.
pub(crate) fn view_at_place(ring: &Ring, place: usize) -> &View
    requires { IsUpAt ring.now place }
    ensures { result.now ≡ view_in (world_of ring.now)
        (member_at (world_of ring.now) (suc place)).version }
{
    view_of(&ring.views, ring.members[place].version)
}

/// The left neighbour of the member at a place, in its view.
pub(crate) fn left_neighbour(ring: &Ring, place: usize) -> u32
    requires { IsUpAt ring.now place }
    ensures { result ≡ the_left_neighbour (world_of ring.now) (suc place) }
{
    let view = view_at_place(ring, place);
    left_in(view, id_at(place))
}

/// Whether an id is a neighbour's.
pub(crate) fn is_neighbour(ring: &Ring, place: usize, id: u32) -> bool
    requires { IsUpAt ring.now place }
    ensures { result ≡ neighbours (world_of ring.now) (suc place) id }
{
    let view = view_at_place(ring, place);
    let own = id_at(place);
    id == left_in(view, own) || id == right_in(view, own)
}

/// Whether a link stands at the door of a member with this left neighbour since then.
fn is_at_door(link: &PlainLink, id: u32, left: u32, since: u32) -> bool
    ensures { result ≡ stands_at_door id left since (link_of link.now) }
{
    link.receiver == id && !link.over && link.sender == left && since <= link.opened
}

fn first_at_door(links: &[PlainLink], id: u32, left: u32, since: u32) -> Option<usize>
    ensures { result ≡ position (λ link. stands_at_door id left since (link_of link)) links.now }
{
    links
        .iter()
        .position(|link| is_at_door(link, id, left, since))
}

/// The oldest link at the door of the member at a place.
pub(crate) fn at_door(ring: &Ring, place: usize) -> Option<usize>
    requires { IsUpAt ring.now place }
    ensures door { result ≡ the_door (world_of ring.now) (suc place) }
    ensures within { IfSome result (λ s. s < length ring.now.links.items) }
{
    let view = view_at_place(ring, place);
    let id = id_at(place);
    let left = left_in(view, id);
    let since = view.since_of(MemberId(id));
    first_at_door(&ring.links, id, left, since)
}

/// Whether the receiver has had the sender at its left in each view from `opened` up to a version.
#[tactic(auto, using(ring_rules::proofs::code::Looks::kept_yes, ring_rules::proofs::code::Looks::kept_no))]
pub(crate) fn is_kept(views: &[View], receiver: u32, sender: u32, opened: u32, version: u32) -> bool
    requires some { 1 ≤ opened }
    requires within { version ≤ length views.now }
    requires few { version ≤ 256 }
    ensures { result ≡ is_kept_of (no_group ∷ views.now) receiver sender opened version }
{
    for u in opened..version + 1 {
        if left_in(view_of(views, u), receiver) != sender {
            return false;
        }
    }
    true
}
