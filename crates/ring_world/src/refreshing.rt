//! A member reads a view, and sends to its right neighbour in it.
ghost use Rattle.std.specs.Prelude.{◌≡◌, ◌<◌, ◌≤◌, suc, length, Option, Some, None};
ghost use Rattle.std.specs.Prelude.{vec_len, vec_capacity, OnOk, OnErr, IfSome};
ghost use Rattle.ring_rules.specs.declared.phase.Ending.TheVariants as ending;
ghost use Rattle.ring_rules.specs.Machine.{member_at, link_at, newest as the_newest, is_kept as the_kept};
ghost use Rattle.ring_rules.specs.Step.{look_at, kept_current as the_kept_current, end_out, open_to};
ghost use Rattle.ring_rules.specs.Step.{opened_link};
ghost use Rattle.ring_rules.specs.Event.{refreshed};
ghost use Rattle.ring_world.specs.Placed.{IsPlaced, IsUpAt};
ghost use Rattle.ring_world.specs.Shows.{world_of, link_of};
ghost use Rattle.ring_rules.specs.Step.{sends_to as the_sends_to};

use crate::neighbours::{id_at, is_kept, right_in, view_of};
use crate::plain_link::PlainLink;
use crate::state::Ring;
use crate::{plain_links, plain_members};
use ring_names::OutOfMemory;
use ring_rules::Ending;
use std::alloc::Global;

/// Whether a link is kept up to a version.
#[tactic(auto, using(crate::proofs::code::ShownParts::read_link))]
fn is_link_kept(ring: &Ring, link: usize, version: u32) -> bool
    requires placed { IsPlaced (world_of ring.now) }
    requires link { link < length ring.now.links.items }
    requires upto { version ≤ the_newest (world_of ring.now) }
    ensures { result ≡ the_kept (world_of ring.now) (link_at (world_of ring.now) link) version }
{
    let plain = &ring.links[link];
    is_kept(
        &ring.views,
        plain.receiver,
        plain.sender,
        plain.opened,
        version,
    )
}

/// What stays of the current link of the member at a place.
#[tactic(auto, using(crate::proofs::code::ShownParts::read_member, crate::proofs::code::Found::current_at))]
fn kept_current(ring: &Ring, place: usize, version: u32) -> Option<usize>
    requires up { IsUpAt ring.now place }
    requires upto { version ≤ the_newest (world_of ring.now) }
    ensures { result ≡ the_kept_current
        (λ s. the_kept (world_of ring.now) (link_at (world_of ring.now) s) version)
        (member_at (world_of ring.now) (suc place)).current }
{
    match ring.members[place].current {
        None => None,
        Some(current) => {
            if is_link_kept(ring, current, version) {
                Some(current)
            } else {
                None
            }
        }
    }
}

/// Whether it sends to a receiver already.
#[tactic(auto, using(crate::proofs::code::Rules::reading, crate::proofs::code::Found::out_at))]
fn sends_to(ring: &Ring, place: usize, receiver: u32) -> bool
    requires { IsUpAt ring.now place }
    ensures { result ≡ the_sends_to (world_of ring.now) receiver
        (member_at (world_of ring.now) (suc place)).out }
{
    match ring.members[place].out {
        None => false,
        Some(out) => ring.links[out].receiver == receiver,
    }
}

/// It has the view of a version, and this of its current link.
fn look(ring: &mut Ring, place: usize, version: u32, current: Option<usize>)
    requires place { place < length ring.old.members.items }
    requires current { current ≡ the_kept_current
        (λ s. the_kept (world_of ring.old) (link_at (world_of ring.old) s) version)
        (member_at (world_of ring.old) (suc place)).current }
    ensures state { world_of ring.new ≡ look_at (world_of ring.old) (suc place) version }
    ensures links { ring.new.links ≡ ring.old.links }
    ensures members { vec_len ring.new.members ≡ vec_len ring.old.members }
    ensures members_room { vec_capacity ring.new.members ≡ vec_capacity ring.old.members }
{
    plain_members::look(&mut ring.members, place, version, current);
}

/// The link that it sends on ends.
fn end_sending(ring: &mut Ring, out: Option<usize>)
    requires { IfSome out (λ o. o < length ring.old.links.items) }
    ensures state { world_of ring.new ≡ end_out ending.Moved (world_of ring.old) out }
    ensures room { vec_capacity ring.new.links ≡ vec_capacity ring.old.links }
    ensures many { vec_len ring.new.links ≡ vec_len ring.old.links }
    ensures members { ring.new.members ≡ ring.old.members }
{
    if let Some(out) = out {
        plain_links::end(&mut ring.links, out, Ending::Moved);
    }
}

/// Makes room for one more link.
fn make_room(links: &mut Vec<PlainLink>) -> Result<(), OutOfMemory>
    ensures same { links.new.items ≡ links.old.items }
    ensures room { OnOk result (vec_len links.new < vec_capacity links.new) }
{
    links.reserve(1)?;
    Ok(())
}

/// It sends on a new link from now on, for which there is room.
fn open(ring: &mut Ring, place: usize, receiver: u32, link: PlainLink)
    requires place { place < length ring.old.members.items }
    requires room { vec_len ring.old.links < vec_capacity ring.old.links }
    requires link { link_of link ≡ opened_link (world_of ring.old) (suc place) receiver }
    ensures state { world_of ring.new ≡ open_to (world_of ring.old) (suc place) receiver }
    ensures members { vec_len ring.new.members ≡ vec_len ring.old.members }
    ensures members_room { vec_capacity ring.new.members ≡ vec_capacity ring.old.members }
{
    let out = ring.links.len();
    ring.links.push_reserved(link);
    plain_members::set_out(&mut ring.members, place, out);
}

/// It sends on a new link from now on, and the one before it ends. All that wants memory comes first.
fn move_to(
    alloc: Global,
    ring: &mut Ring,
    place: usize,
    version: u32,
    receiver: u32,
    current: Option<usize>,
) -> Result<(), OutOfMemory>
    requires up { IsUpAt ring.old place }
    requires current { current ≡ the_kept_current
        (λ s. the_kept (world_of ring.old) (link_at (world_of ring.old) s) version)
        (member_at (world_of ring.old) (suc place)).current }
    ensures ok { OnOk result (world_of ring.new ≡ open_to
        (end_out ending.Moved (look_at (world_of ring.old) (suc place) version)
        (member_at (world_of ring.old) (suc place)).out) (suc place) receiver) }
    ensures err { OnErr result (world_of ring.new ≡ world_of ring.old) }
    ensures members { vec_len ring.new.members ≡ vec_len ring.old.members }
    ensures members_room { vec_capacity ring.new.members ≡ vec_capacity ring.old.members }
{
    let out = ring.members[place].out;
    let link = PlainLink::open(
        alloc,
        ring.credit,
        id_at(place),
        receiver,
        version,
        &ring.members[place],
    )?;
    make_room(&mut ring.links)?;
    look(ring, place, version, current);
    end_sending(ring, out);
    open(ring, place, receiver, link);
    Ok(())
}

/// The member at a place reads the view of a version.
#[tactic(auto, using(ring_rules::proofs::code::Looks::refreshed_stays, ring_rules::proofs::code::Looks::refreshed_moves))]
pub(crate) fn refresh(
    alloc: Global,
    ring: &mut Ring,
    place: usize,
    version: u32,
) -> Result<(), OutOfMemory>
    requires up { IsUpAt ring.old place }
    requires later { (member_at (world_of ring.old) (suc place)).version ≤ version }
    requires upto { version ≤ the_newest (world_of ring.old) }
    ensures ok { OnOk result (world_of ring.new
        ≡ refreshed (world_of ring.old) (suc place) version) }
    ensures err { OnErr result (world_of ring.new ≡ world_of ring.old) }
    ensures members { vec_len ring.new.members ≡ vec_len ring.old.members }
    ensures members_room { vec_capacity ring.new.members ≡ vec_capacity ring.old.members }
{
    let receiver = right_in(view_of(&ring.views, version), id_at(place));
    let current = kept_current(ring, place, version);
    if sends_to(ring, place, receiver) {
        look(ring, place, version, current);
        return Ok(());
    }
    move_to(alloc, ring, place, version, receiver, current)
}
