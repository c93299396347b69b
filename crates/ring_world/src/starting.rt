//! How a ring opens.
ghost use Rattle.std.specs.Prelude.{◌≡◌, ◌<◌, ◌≤◌, suc, true, length, map, IfOk};
ghost use Rattle.std.specs.List.{range_with_len};
ghost use Rattle.group_view.specs.Change.{AreOpeningNames, most_entries, opening as opening_group};
ghost use Rattle.ring_rules.specs.Step.{opening as the_opening, opening_member as the_opening_member, opening_link as the_opening_link};
ghost use Rattle.ring_world.specs.Shows.{world_of, member_of, link_of};

use crate::neighbours::{id_at, left_in, right_in};
use crate::plain_link::PlainLink;
use crate::plain_member::{PlainMember, opening_rows};
use crate::state::Ring;
use group_view::View;
use queue_mirror::Mirror;
use ring_names::{CreditSpec, Name, OutOfMemory};
use ring_rules::Phase;
use std::alloc::Global;

/// The member at a place.
#[tactic(auto, using(crate::proofs::code::Starts::opening_stands, crate::proofs::code::Starts::name_at))]
fn opening_member(
    alloc: Global,
    view: &View,
    names: &[Name],
    place: usize,
) -> Result<PlainMember, OutOfMemory>
    requires view { view.now ≡ opening_group names.now }
    requires place { place < length names.now }
    requires few { length names.now ≤ most_entries }
    ensures { IfOk result (λ member. member_of member ≡ the_opening_member names.now (suc place)) }
{
    let left = left_in(view, id_at(place));
    let rows = opening_rows(alloc, names.len() + 1)?;
    Ok(PlainMember {
        name: names[place],
        phase: Phase::Up,
        version: 1,
        log: Vec::new(alloc),
        rows,
        out: Some(place),
        current: Some((left as usize).saturating_sub(1)),
        mirror: Mirror::founding(alloc),
        started: false,
        told: 0,
        whole: true,
    })
}

/// A member for each name.
fn opening_members(
    alloc: Global,
    view: &View,
    names: &[Name],
) -> Result<Vec<PlainMember>, OutOfMemory>
    requires view { view.now ≡ opening_group names.now }
    requires few { length names.now ≤ most_entries }
    ensures { IfOk result (λ v. map member_of v.items
        ≡ map (the_opening_member names.now) (range_with_len 1 (length names.now))) }
{
    let mut members = Vec::new(alloc);
    for place in 0..names.len() {
        let member = opening_member(alloc, view, names, place)?;
        members.push(member)?;
    }
    Ok(members)
}

/// The link of the member at a place.
#[tactic(auto, using(crate::proofs::code::Starts::opening_stands))]
fn opening_link(
    alloc: Global,
    view: &View,
    names: &[Name],
    place: usize,
    credit: CreditSpec,
) -> PlainLink
    requires view { view.now ≡ opening_group names.now }
    requires place { place < length names.now }
    requires few { length names.now ≤ most_entries }
    ensures { link_of result ≡ the_opening_link credit names.now (suc place) }
{
    let id = id_at(place);
    PlainLink::new(alloc, credit, id, right_in(view, id), 1)
}

/// A link for each name.
fn opening_links(
    alloc: Global,
    view: &View,
    names: &[Name],
    credit: CreditSpec,
) -> Result<Vec<PlainLink>, OutOfMemory>
    requires view { view.now ≡ opening_group names.now }
    requires few { length names.now ≤ most_entries }
    ensures { IfOk result (λ v. map link_of v.items
        ≡ map (the_opening_link credit names.now) (range_with_len 1 (length names.now))) }
{
    let mut links = Vec::new(alloc);
    for place in 0..names.len() {
        let link = opening_link(alloc, view, names, place, credit);
        links.push(link)?;
    }
    Ok(links)
}

/// The ring with these members.
pub(crate) fn opening(
    alloc: Global,
    names: &[Name],
    credit: CreditSpec,
) -> Result<Ring, OutOfMemory>
    requires { AreOpeningNames names.now }
    ensures { IfOk result (λ ring. world_of ring ≡ the_opening credit names.now) }
{
    let view = View::opening(alloc, names)?;
    let members = opening_members(alloc, &view, names)?;
    let links = opening_links(alloc, &view, names, credit)?;
    let mut views = Vec::new(alloc);
    views.push(view)?;
    Ok(Ring {
        members,
        links,
        views,
        credit,
    })
}
