//! Small rings against a slow reading of what a view says, and each public call once, with ample memory.
ghost use Rattle.std.specs.Prelude.{◌≡◌, true, nat_lt, ◌<◌};
ghost use Rattle.std.specs.Bool.{OnTrue};
ghost use Rattle.std.specs.List.{list_all, sum_by};
ghost use Rattle.group_view.specs.View.{ids};
ghost use Rattle.group_view.specs.Kept.{changes_of};
ghost use Rattle.group_view.specs.Ring.{AreDistinct};

use crate::*;
use ring_names::{Items, MemberId, Name};
use std::alloc::Global;
use std::process::Abort;
use std::test::Fail;

mod changes;

fn name(text: &str) -> Result<Name, Fail> {
    Ok(Name::read(text.as_bytes())?)
}

/// The names that a line lists.
fn names(alloc: Global, line: &str) -> Result<Vec<Name>, Fail> {
    let mut names = Vec::new(alloc);
    for text in line.split_whitespace() {
        names.push(name(text)?)?;
    }
    Ok(names)
}

/// The opening view of these members.
fn opened(alloc: Global, line: &str) -> Result<View, Fail> {
    let names = names(alloc, line)?;
    if !are_opening_names(&names) {
        return Err(Fail::new("no opening"));
    }
    Ok(View::opening(alloc, &names)?)
}

/// Whether the ids are different, and below the next one.
fn are_view_ids(entries: &[Entry], next_id: u32) -> bool
    ensures distinct { OnTrue result (AreDistinct (ids entries.now)) }
    ensures fresh { OnTrue result (list_all (λ n. nat_lt n next_id) (ids entries.now) ≡ true) }
{
    let mut from = entries.len();
    while from > 0 {
        from -= 1;
        let id = entries[from].id;
        let (_, later) = entries.split_at(from + 1);
        if id.0 >= next_id || ring::has_entry(later, id) {
            return false;
        }
    }
    true
}

/// Whether there is an entry, and the first is synchronised, as in each group that opened.
fn begins_synced(entries: &[Entry]) -> bool
    ensures { OnTrue result (1 < sum_by changes_of entries.now) }
{
    match entries.first() {
        Some(first) => first.synced,
        None => false,
    }
}

/// The view of these entries, if they are those of one.
fn view_of(entries: Vec<Entry>) -> Option<View> {
    if !begins_synced(&entries) || entries.len() > 64 {
        return None;
    }
    let next_id = entries.len() as u32 + 1;
    if !are_view_ids(&entries, next_id) {
        return None;
    }
    Some(View {
        version: 1,
        entries: Entries::from_vec(entries),
        master: None,
        term: 0,
        next_id,
    })
}

/// The id and the mark at a place.
fn at(entries: &[Entry], place: usize) -> (MemberId, Mark) {
    match entries.get(place) {
        Some(entry) => (entry.id, entry.mark),
        None => (MemberId(0), Mark::Erased),
    }
}

/// The place next to one, to the right or to the left.
fn next_to(size: usize, place: usize, right: bool) -> usize {
    let end = size.saturating_sub(1);
    if right {
        if place >= end { 0 } else { place + 1 }
    } else if place == 0 {
        end
    } else {
        place - 1
    }
}

/// The neighbour, by going from place to place.
fn slow_neighbour(entries: &[Entry], place: usize, right: bool) -> MemberId {
    let mut there = place;
    for _step in 1..entries.len() {
        there = next_to(entries.len(), there, right);
        if let (id, Mark::Live) = at(entries, there) {
            return id;
        }
    }
    at(entries, place).0
}

/// The number of the owner: that of the first live entry, going right. It is 0 where nobody lives.
fn slow_owner(entries: &[Entry], place: usize) -> u32 {
    let mut there = place;
    for _entry in entries {
        if let (id, Mark::Live) = at(entries, there) {
            return id.0;
        }
        there = next_to(entries.len(), there, true);
    }
    0
}

/// Whether one comes on the way right from one place to another.
fn slow_between(entries: &[Entry], from: usize, x: usize, to: usize) -> bool {
    let mut there = from;
    for _step in 1..entries.len() {
        there = next_to(entries.len(), there, true);
        if there == to || there == x {
            return there != to;
        }
    }
    false
}

/// The aliases, by going left and asking for each owner.
fn slow_aliases(alloc: Global, entries: &[Entry], place: usize) -> Result<Vec<MemberId>, Fail> {
    let (of, _) = at(entries, place);
    let mut aliases = Vec::new(alloc);
    let mut there = place;
    for _step in 1..entries.len() {
        there = next_to(entries.len(), there, false);
        if let (id, Mark::Dead) = at(entries, there)
            && slow_owner(entries, there) == of.0
        {
            aliases.push(id)?;
        }
    }
    Ok(aliases)
}

/// Whether the neighbours of the entry at a place are those of the slow reading.
fn has_neighbours(view: &View, place: usize) -> bool {
    let entries = view.entries.as_slice();
    let (id, _) = at(entries, place);
    view.left_of(id).0 == slow_neighbour(entries, place, false).0
        && view.right_of(id).0 == slow_neighbour(entries, place, true).0
}

/// Whether its owner is.
fn has_owner(view: &View, place: usize) -> bool {
    let entries = view.entries.as_slice();
    let slow = slow_owner(entries, place);
    match view.owner_of(at(entries, place).0) {
        Some(owner) => owner.0 > 0 && owner.0 == slow,
        None => slow == 0,
    }
}

/// Whether its aliases are.
fn has_aliases(alloc: Global, view: &View, place: usize) -> Result<bool, Fail> {
    let entries = view.entries.as_slice();
    let aliases = view.aliases_of(at(entries, place).0)?;
    Ok(aliases.as_slice() == slow_aliases(alloc, entries, place)?.as_slice())
}

/// Whether what stands between it and each other is.
fn has_between(view: &View, from: usize) -> bool {
    let entries = view.entries.as_slice();
    let (id, _) = at(entries, from);
    for x in 0..entries.len() {
        for to in 0..entries.len() {
            let found = view.is_between(id, at(entries, x).0, at(entries, to).0);
            if found != slow_between(entries, from, x, to) {
                return false;
            }
        }
    }
    true
}

/// Whether an id without an entry is its own neighbour, and nobody's owner.
fn knows_nobody(view: &View) -> Result<bool, Fail> {
    let nobody = MemberId(9);
    let alone = view.left_of(nobody).0 == 9 && view.right_of(nobody).0 == 9;
    Ok(alone && view.aliases_of(nobody)?.is_empty())
}

/// Whether a view answers as the slow reading does, of each place and each two and three.
fn is_read(alloc: Global, view: &View) -> Result<bool, Fail> {
    for place in 0..view.entries.as_slice().len() {
        let read = has_neighbours(view, place)
            && has_owner(view, place)
            && has_between(view, place)
            && has_aliases(alloc, view, place)?;
        if !read {
            return Ok(false);
        }
    }
    knows_nobody(view)
}

fn mark_of(digit: u32) -> Mark {
    match digit {
        0 => Mark::Live,
        1 => Mark::Dead,
        _ => Mark::Erased,
    }
}

fn name_of(id: u32) -> Result<Name, Fail> {
    name(match id {
        1 => "a",
        2 => "b",
        3 => "c",
        4 => "d",
        _ => "e",
    })
}

/// The entries of a ring of that size, marked by the digits of a number to the base of 3. Its ids stand as
/// admissions may have left them.
fn entries_of(alloc: Global, size: u32, marking: u32) -> Result<Vec<Entry>, Fail> {
    let mut entries = Vec::new(alloc);
    let mut left = marking;
    for id in [4, 2, 5, 1, 3] {
        if id <= size {
            entries.push(Entry {
                id: MemberId(id),
                name: name_of(id)?,
                mark: mark_of(left % 3),
                synced: true,
                joined: 1,
                since: 1,
            })?;
            left /= 3;
        }
    }
    Ok(entries)
}

/// Whether the view of that size and marking is read.
fn is_ring_read(alloc: Global, size: u32, marking: u32) -> Result<bool, Fail> {
    match view_of(entries_of(alloc, size, marking)?) {
        Some(view) => is_read(alloc, &view),
        None => Ok(false),
    }
}

/// All markings of five entries, of which a smaller ring takes the first ones.
#[test]
fn answers_for_all_small_rings(rt: HostRuntime) -> Result<(), Fail> {
    for size in 1..6 {
        for marking in 0..243 {
            assert!(rt;
                is_ring_read(rt.alloc(), size, marking)?,
                "at {size} {marking}"
            );
        }
    }
    Ok(())
}

/// The version from which the left neighbour has been the present one, by all views so far.
fn slow_since(views: &[View], id: MemberId) -> u32 {
    let mut left = 0;
    let mut since = 0;
    for view in views {
        let now = view.left_of(id).0;
        if now != left {
            left = now;
            since = view.version;
        }
    }
    since
}

/// Whether each entry has the version of the slow reading.
fn has_since(views: &[View], view: &View) -> bool {
    for entry in view.entries.as_slice() {
        if entry.since != slow_since(views, entry.id) {
            return false;
        }
    }
    true
}

fn is_same(one: &View, other: &View) -> bool {
    one.version == other.version
        && one.master == other.master
        && one.entries.as_slice() == other.entries.as_slice()
}

/// Whether a member is marked dead in the next version, which is noted; or it is refused as dead, and nothing changes.
fn marks(views: &mut Vec<View>, view: &mut View, dead: MemberId) -> Result<bool, Fail> {
    let was = view.copy()?;
    match view.mark_dead(dead) {
        Ok(()) => {
            views.push(view.copy()?)?;
            Ok(view.version > was.version && view.version - was.version == 1)
        }
        Err(reason) => Ok(reason.code() == 7 && is_same(view, &was)),
    }
}

/// Whether members can be marked in the order that the digits of a number tell, some of them twice, and each
/// view is dated and the last one read.
fn marks_in_order(alloc: Global, view: &mut View, size: u32, order: u32) -> Result<bool, Fail>
    requires { 0 < size }
{
    let mut views = Vec::new(alloc);
    views.push(view.copy()?)?;
    let mut left = order;
    for _step in 0..size {
        let dead = MemberId(left % size + 1);
        left /= size;
        if !marks(&mut views, view, dead)? || !has_since(&views, view) {
            return Ok(false);
        }
    }
    is_read(alloc, view)
}

/// The members of a group of that size, with the number of orders in which so many may be marked.
fn group_of(size: u32) -> (&'static str, u32) {
    match size {
        1 => ("a", 1),
        2 => ("a b", 4),
        3 => ("a b c", 27),
        4 => ("a b c d", 256),
        _ => ("a b c d e", 3125),
    }
}

#[test]
fn dates_neighbours_over_all_orders_of_death(rt: HostRuntime) -> Result<(), Fail> {
    for size in 1..6 {
        let (names, orders) = group_of(size);
        for order in 0..orders {
            let mut view = opened(rt.alloc(), names)?;
            assert!(rt;
                marks_in_order(rt.alloc(), &mut view, size, order)?,
                "at {size} {order}"
            );
        }
    }
    Ok(())
}

/// Whether an entry is of the opening view of a group.
fn is_opening(entry: &Entry) -> bool {
    entry.mark.is_live() && entry.synced && entry.joined == 1 && entry.since == 1
}

/// Whether a view opens as one of three members, of which the first is the master.
fn opens(view: &View) -> bool {
    let mut last = 0;
    for entry in view.entries.as_slice() {
        let id = entry.id.0;
        if !is_opening(entry) || id <= last || id - last > 1 {
            return false;
        }
        last = id;
    }
    let first = matches!(view.master, Some(MemberId(1)));
    last == 3 && first && view.version == 1 && view.term == 1 && view.next_id == 4
}

/// Whether a view finds this id by a name or, where it is 0, none.
fn finds(view: &View, text: &str, id: u32) -> Result<bool, Fail> {
    match view.find(&name(text)?) {
        Some(found) => Ok(id > 0 && found.0 == id),
        None => Ok(id == 0),
    }
}

/// Whether a copy is equal, and its entries come as a vector.
fn copies(view: &View) -> Result<bool, Fail> {
    let copy = view.copy()?;
    Ok(is_same(&copy, view) && copy.entries.into_vec().len() == 3)
}

/// A mark is refused with that number or, where it is 0, happens.
fn expect_refusal(rt: &impl Abort, view: &mut View, id: u32, want: u32) {
    let code = match view.mark_dead(MemberId(id)) {
        Ok(()) => 0,
        Err(reason) => reason.code(),
    };
    assert_eq!(rt; code, want, "at {id}");
}

#[test]
fn opens_and_refuses_marks_with_their_numbers(rt: HostRuntime) -> Result<(), Fail> {
    let mut view = opened(rt.alloc(), "a b c")?;
    assert!(rt; opens(&view) && finds(&view, "b", 2)? && finds(&view, "e", 0)? && copies(&view)?);
    expect_refusal(&rt, &mut view, 4, 6);
    expect_refusal(&rt, &mut view, 2, 0);
    expect_refusal(&rt, &mut view, 2, 7);
    expect_refusal(&rt, &mut view, 0, 6);
    assert!(rt; view.version == 2);
    Ok(())
}

/// Whether a group may open with the names of a line.
fn may_open(alloc: Global, line: &str) -> Result<bool, Fail> {
    Ok(are_opening_names(&names(alloc, line)?))
}

#[test]
fn takes_different_names_alone(rt: HostRuntime) -> Result<(), Fail> {
    assert!(rt; !may_open(rt.alloc(), "a a")? && !may_open(rt.alloc(), "")?);
    Ok(())
}

/// Whether a request to deposit a link keeps its receiver and its version.
fn asks(link: &Deposited<u8>) -> bool {
    let ask = Request::Deposit {
        by: link.from,
        to: MemberId(2),
        view: link.view,
        kind: link.kind,
        link: link.link,
    };
    match ask {
        Request::Deposit { to, view, .. } => to.0 == 2 && view == 3,
        _ => false,
    }
}

/// Whether an answer keeps its one link.
fn answers(links: Vec<Deposited<u8>>) -> bool {
    match Answer::Links(Items::from_vec(links)) {
        Answer::Links(links) => links.as_slice().len() == 1,
        _ => false,
    }
}

/// Whether the request to deposit a link hands over this very link, and one for the newest view none.
fn hands_over(name: LinkName, link: u8) -> bool {
    let refresh: Request<u8> = Request::Refresh { by: name.from };
    refresh.into_link().is_err()
        && match Request::deposit(name, link).into_link() {
            Ok(taken) => taken == (name, link),
            Err(_other) => false,
        }
}

#[test]
fn hands_over_what_is_deposited(rt: HostRuntime) -> Result<(), Fail> {
    let name = LinkName {
        from: MemberId(1),
        to: MemberId(2),
        view: 3,
        kind: LinkKind::Copy,
    };
    assert!(rt; hands_over(name, 7));
    Ok(())
}

#[test]
fn asks_and_answers(rt: HostRuntime) -> Result<(), Fail> {
    let link = Deposited {
        from: MemberId(1),
        view: 3,
        kind: LinkKind::Ring,
        link: 7u8,
    };
    assert!(rt; asks(&link) && answers(vec![in rt.alloc(); link]?));
    Ok(())
}
