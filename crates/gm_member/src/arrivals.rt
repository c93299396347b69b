//! Links that come to a member from the registrar.
ghost use Rattle.std.specs.Prelude.{◌≡◌, ◌+◌, ◌<◌, ◌≤◌, ◌∷◌, ◌++◌, [], cond, not, true, length, vec_len, vec_capacity};
ghost use Rattle.group_view.specs.Ring.{is_in};
ghost use Rattle.ring_rules.specs.View.{ids};
ghost use Rattle.gm_member.specs.Arrivals.{joins, arrived_link, arrived_end, joined_links, turned_ends};

use crate::door::stays;
use crate::links::InLink;
use credit_flow::CreditIn;
use group_view::{Deposited, LinkKind, LinkName, View};
use ring_names::{CreditSpec, MemberId};

/// A link of the ring joins the door of its receiver where it may yet be taken from; else, and of a link of another
/// kind, the end joins those that were left. There is room for both.
fn arrive<I: Drop>(
    view: &View,
    id: MemberId,
    credit: CreditSpec,
    given: Deposited<I>,
    door: &mut Vec<InLink<I>>,
    left: &mut Vec<(LinkName, I)>,
)
    requires stands { is_in id.0 (ids view.now) ≡ true }
    requires room { vec_len door.old < vec_capacity door.old }
    requires room_left { vec_len left.old < vec_capacity left.old }
    ensures door { door.new.items ≡ door.old.items
        ++ cond (joins view.now id.0 given) (arrived_link credit given ∷ []) [] }
    ensures left { left.new.items ≡ left.old.items
        ++ cond (not (joins view.now id.0 given)) (arrived_end id.0 given ∷ []) [] }
    ensures more { vec_len left.new + vec_len door.new ≡ vec_len left.old + vec_len door.old + 1 }
    ensures door_len { vec_len door.new ≤ vec_len door.old + 1 }
    ensures left_len { vec_len left.new ≤ vec_len left.old + 1 }
    ensures room { vec_capacity door.new ≡ vec_capacity door.old }
    ensures room_left { vec_capacity left.new ≡ vec_capacity left.old }
{
    let Deposited {
        from,
        view: opened,
        kind,
        link: end,
    } = given;
    let mut link = InLink {
        from,
        opened,
        counted: CreditIn::new(credit),
        end: None,
    };
    if matches!(kind, LinkKind::Ring) && stays(view, id, &link) {
        link.end = Some(end);
        door.push_reserved(link);
    } else {
        let name = LinkName {
            from,
            to: id,
            view: opened,
            kind,
        };
        left.push_reserved((name, end));
    }
}

/// Each of the links, in their order.
pub(crate) fn arrive_all<I: Drop>(
    view: &View,
    id: MemberId,
    credit: CreditSpec,
    links: Vec<Deposited<I>>,
    door: &mut Vec<InLink<I>>,
    left: &mut Vec<(LinkName, I)>,
)
    requires stands { is_in id.0 (ids view.now) ≡ true }
    requires room { vec_len door.old + length links.items ≤ vec_capacity door.old }
    requires room_left { vec_len left.old + length links.items ≤ vec_capacity left.old }
    ensures door { door.new.items ≡ door.old.items ++ joined_links view.now id.0 credit links.items }
    ensures left { left.new.items ≡ left.old.items ++ turned_ends view.now id.0 links.items }
    ensures more { vec_len left.new + vec_len door.new ≡ vec_len left.old + vec_len door.old + length links.items }
    ensures room { vec_capacity left.new ≡ vec_capacity left.old }
{
    for link in links {
        arrive(view, id, credit, link, door, left);
    }
}
