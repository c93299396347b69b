//! What is read of views and of the links that wait.
ghost use Rattle.std.specs.Prelude.{◌≡◌, ◌↔◌, ◌<◌, ◌≤◌, nat_eq, length, IsSome, IfSome, IfNone};
ghost use Rattle.std.specs.List.{list_any};
ghost use Rattle.group_view.specs.Since.{no_group, view_at};
ghost use Rattle.registrar.specs.Asked.{is_left as the_left, is_beside as the_neighbours};
ghost use Rattle.registrar.specs.Asked.{waits_from as the_waiting, has_more as the_rest};

use crate::waiting_link::WaitingLink;
use group_view::View;
use ring_names::MemberId;

/// The last of the views.
pub(crate) fn newest(views: &[View]) -> &View
    requires { 0 < length views.now }
    ensures { result.now ≡ view_at views.now (length views.now) }
{
    &views[views.len() - 1]
}

/// The view of a version, where there is one.
pub(crate) fn view_of(views: &[View], version: u32) -> Option<&View>
    ensures there { IsSome result ↔ (1 ≤ version) × (version ≤ length views.now) }
    ensures some { IfSome result (λ view. view.now ≡ view_at views.now version) }
    ensures none { IfNone result (view_at views.now version ≡ no_group) }
{
    if version == 0 {
        return None;
    }
    views.get(version as usize - 1)
}

fn is_left(view: &View, by: MemberId, dead: MemberId) -> bool
    ensures { result ≡ the_left view.now by.0 dead.0 }
{
    dead.0 == view.left_of(by).0
}

/// Whether `by` is live, and `dead` its neighbour on either side.
pub(crate) fn is_beside(view: &View, by: MemberId, dead: MemberId) -> bool
    ensures { result ≡ the_neighbours view.now by.0 dead.0 }
{
    view.is_live(by) && (is_left(view, by, dead) || dead.0 == view.right_of(by).0)
}

/// Whether an id is one of these.
pub(crate) fn is_among(ids: &[MemberId], id: MemberId) -> bool
    ensures { result ≡ list_any (λ other. nat_eq id.0 other.0) ids.now }
{
    ids.iter().any(|other| id.0 == other.0)
}

fn waits_from<I>(links: &[WaitingLink<I>], dead: MemberId, by: MemberId, since: u32) -> bool
    ensures { result ≡ the_waiting links.now dead.0 by.0 since }
{
    links
        .iter()
        .any(|waiting_link| waiting_link.is_ring_from(dead, by, since))
}

/// Whether `dead` is the left neighbour, and `by` has something to take from it yet.
pub(crate) fn has_more<I>(
    links: &[WaitingLink<I>],
    view: &View,
    by: MemberId,
    dead: MemberId,
    has_current: bool,
) -> bool
    ensures { result ≡ the_rest links.now view.now by.0 dead.0 has_current }
{
    is_left(view, by, dead) && (has_current || waits_from(links, dead, by, view.since_of(by)))
}
