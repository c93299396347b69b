//! What a member's view says of it and of a link.
ghost use Rattle.std.specs.Prelude.{◌≡◌, ◌+◌, ◌<◌, true};
ghost use Rattle.group_view.specs.Ring.{is_in};
ghost use Rattle.group_view.specs.View.{entry_in};
ghost use Rattle.ring_rules.specs.View.{ids, left_of as the_left, right_of as the_right};
ghost use Rattle.ring_rules.specs.Rows.{most_members};
ghost use Rattle.ring_rules.specs.Step.{is_owned};

use group_view::View;
use ring_names::MemberId;

/// The version of a view.
pub(crate) fn version(view: &View) -> u32
    ensures { result ≡ view.now.version }
{
    view.version
}

/// Since when the left neighbour that the view gives to an entry has been it.
pub(crate) fn since(view: &View, id: MemberId) -> u32
    ensures { result ≡ (entry_in view.now.entries id.0).since }
{
    view.since_of(id)
}

/// The left neighbour of an entry.
pub(crate) fn left(view: &View, id: MemberId) -> MemberId
    requires { is_in id.0 (ids view.now) ≡ true }
    ensures { result.0 ≡ the_left view.now id.0 }
{
    view.left_of(id)
}

/// The right neighbour of an entry.
pub(crate) fn right(view: &View, id: MemberId) -> MemberId
    requires { is_in id.0 (ids view.now) ≡ true }
    ensures { result.0 ≡ the_right view.now id.0 }
{
    view.right_of(id)
}

/// Whether a member answers, against a sender, for the origin at a place, whose id is one more.
pub(crate) fn owns(view: &View, id: MemberId, from: MemberId, place: usize) -> bool
    requires { place < most_members }
    ensures { result ≡ is_owned view.now id.0 from.0 (place + 1) }
{
    let origin = MemberId(place as u32 + 1);
    origin.0 == id.0 || view.is_between(from, origin, id)
}
