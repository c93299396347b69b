//! Links of which both ends stand at members: their ends meet before and after a round.
ghost use Rattle.std.specs.Prelude.{◌≡◌, ◌≢◌, ◌<◌, ◌&&◌, true, false, length, Some, IfSome, IfNone};
ghost use Rattle.gm_member.specs.Shown.{held_of, in_name_of, out_name_of};
ghost use Rattle.ring_parties.specs.Pairing.{MayMeetPairs, HaveMetPairs, TriesToMeet, TakesFrom, SendsApartAt};
ghost use Rattle.ring_parties.specs.Pairing.{EachParty, IsHeardAt, IsHeardIf};

use crate::node::Node;
use crate::party::Party;
use group_view::LinkName;
use ordered_link::ring_meet;

/// Whether the link from which a member takes has that name.
fn takes_from(node: &Node, name: &LinkName) -> bool
    ensures takes { result ≡ true → in_name_of (held_of node.now) 0 ≡ Some name.now }
    ensures other { result ≡ false → in_name_of (held_of node.now) 0 ≢ Some name.now }
{
    node.in_name(0) == Some(*name)
}

/// The place of the member that takes from the link on which the one at a place sends, where there is one.
fn receiver_of(members: &[Party], place: usize) -> Option<usize>
    requires within { place < length members.now }
    requires may { MayMeetPairs members.now }
    ensures some { IfSome result (λ receiver. TakesFrom members.now place receiver) }
    ensures none { IfNone result (SendsApartAt members.now place) }
{
    let name = members[place].node.out_name()?;
    let receiver = name.to.0 as usize - 1;
    if receiver >= members.len() {
        return None;
    }
    if takes_from(&members[receiver].node, &name) {
        return Some(receiver);
    }
    None
}

/// Lets the ends meet of the link on which the member at a place sends, where its receiver takes from it: whether it does.
fn meet_pair(members: &mut [Party], place: usize) -> bool
    requires within { place < length members.old }
    requires may { MayMeetPairs members.old }
    ensures { TriesToMeet place members.old members.new result }
{
    let Some(receiver) = receiver_of(members, place) else {
        return false;
    };
    let Some(mut out) = members[place].node.lend_out() else {
        unreachable!()
    };
    let Some(mut link) = members[receiver].node.lend_in(0) else {
        unreachable!()
    };
    ring_meet(&mut out, &mut link);
    members[receiver].node.give_in(0, link);
    members[place].node.give_out(out);
    true
}

/// Lets the ends of all such links meet, and marks who sends on one. It takes no memory.
pub(crate) fn meet_pairs(members: &mut [Party])
    requires { MayMeetPairs members.old }
    ensures met { HaveMetPairs members.old members.new }
    ensures may { MayMeetPairs members.new }
{
    for place in 0..members.len() {
        let meets = meet_pair(members, place);
        members[place].meets = meets;
    }
}

/// Whether the link on which a member sends has that name.
fn sends_on(node: &Node, name: &LinkName) -> bool
    ensures { result ≡ true → out_name_of (held_of node.now) ≡ Some name.now }
{
    node.out_name() == Some(*name)
}

/// The place of the member that sends on the link from which the one at a place takes, where there is one.
fn sender_of(members: &[Party], place: usize) -> Option<usize>
    requires { place < length members.now }
    ensures { IfSome result (λ sender. TakesFrom members.now sender place) }
{
    let name = members[place].node.in_name(0)?;
    if name.from.0 == 0 {
        return None;
    }
    let sender = name.from.0 as usize - 1;
    if sender >= members.len() {
        return None;
    }
    if !sends_on(&members[sender].node, &name) {
        return None;
    }
    Some(sender)
}

/// Whether somebody sends on the link from which the member at a place takes.
fn is_heard(members: &[Party], place: usize) -> bool
    requires { place < length members.now }
    ensures { result ≡ true → IsHeardAt members.now place }
{
    sender_of(members, place).is_some()
}

/// A member stays marked only where it is heard.
fn hear(party: &mut Party, heard: bool)
    ensures { party.new ≡ record party.old { meets = party.old.meets && heard } }
{
    party.meets = party.meets && heard;
}

/// Takes the mark from each member that takes from a link on which nobody sends.
pub(crate) fn rest_unheard(members: &mut [Party])
    ensures { EachParty (λ _ p p'. IsHeardIf members.old p p') members.old members.new }
{
    for place in 0..members.len() {
        let heard = is_heard(members, place);
        hear(&mut members[place], heard);
    }
}
