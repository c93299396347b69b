//! The ends of each link meet.
ghost use Rattle.std.specs.Prelude.{◌≡◌, ◌+◌, ◌-◌, ◌≤◌, ◌<◌, true, false, map, length, IfSome, IfNone, IsSome};
ghost use Rattle.std.specs.Prelude.{None, Some, slice_index_or, slice_set};
ghost use Rattle.ring_rules.specs.Machine.{runs_phase};
ghost use Rattle.gm_member.specs.Shown.{out_name_of};
ghost use Rattle.ring_parties.specs.Ends.{Fits, Meets};
ghost use Rattle.ring_parties.specs.Parties.{shown_of, shown_in, keeps_in, out_seen, in_seen};
ghost use Rattle.ring_parties.specs.Parties.{with_out, deposit_shown, no_shown};
ghost use Rattle.ring_parties.specs.Behind.{behind};
ghost use Rattle.ring_parties.specs.Meeting.{HasNone, NodeMayMeet, NodeMeets, DepositsMayMeet};
ghost use Rattle.ring_parties.specs.Meeting.{DepositMeets, NoneIsDeposited, lent_out};

use crate::node::Node;
use crate::parties::Parties;
use crate::party::Party;
use crate::pending_deposit::PendingDeposit;
use activity::Load;
use group_view::LinkName;
use ordered_link::{RingIn, RingOut, ring_meet};
use registrar::Registrar;

/// Lets two ends meet.
#[tactic(auto, using(crate::proofs::standing::Rings::fits_ends, crate::proofs::standing::Rings::meets_seen))]
fn meet_two(out: &mut RingOut<Load>, link: &mut RingIn<Load>)
    requires { Fits (out_seen out.old) (in_seen link.old) }
    ensures { Meets (out_seen out.old) (in_seen link.old) (out_seen out.new) (in_seen link.new) }
{
    ring_meet(out, link);
}

/// Lets an out end meet the end of the link of that name to a member: whether there is one.
fn meet_node(node: &mut Node, out: &mut RingOut<Load>, name: &LinkName) -> bool
    requires { NodeMayMeet (shown_of node.old) name.now (out_seen out.old) }
    ensures met { result ≡ true → NodeMeets (shown_of node.old) name.now (out_seen out.old)
        (shown_of node.old) (shown_of node.new) (out_seen out.new) }
    ensures none { result ≡ false → HasNone (shown_of node.old).held name.now }
    ensures same { result ≡ false → shown_of node.new ≡ shown_of node.old }
    ensures out { result ≡ false → out_seen out.new ≡ out_seen out.old }
{
    let Some(mut link) = node.lend(name) else {
        return false;
    };
    meet_two(out, &mut link);
    node.give(name, link);
    true
}

/// Lets an out end meet the end of the link of that name that waits at the registrar: whether there is one.
fn meet_deposit(
    registrar: &mut Registrar<RingIn<Load>>,
    out: &mut RingOut<Load>,
    name: &LinkName,
) -> bool
    requires { DepositsMayMeet (map deposit_shown registrar.old.links) name.now (out_seen out.old) }
    ensures met { result ≡ true → DepositMeets (map deposit_shown registrar.old.links) name.now
        (out_seen out.old) (map deposit_shown registrar.new.links) (out_seen out.new) }
    ensures none { result ≡ false → NoneIsDeposited (map deposit_shown registrar.old.links) name.now }
    ensures still { result ≡ false → registrar.new ≡ registrar.old }
    ensures out { result ≡ false → out_seen out.new ≡ out_seen out.old }
    ensures same { (registrar.new.views ≡ registrar.old.views)
        × (registrar.new.stopped ≡ registrar.old.stopped) }
{
    let Some(mut link) = registrar.lend(name) else {
        return false;
    };
    meet_two(out, &mut link);
    registrar.give(name, link);
    true
}

/// Lets an out end meet the end of a link that hasn't reached the registrar, where it has that name: whether it has.
fn meet_pending(
    pending_deposit: &mut Option<PendingDeposit>,
    out: &mut RingOut<Load>,
    name: &LinkName,
) -> bool
    requires { DepositsMayMeet (behind pending_deposit.old) name.now (out_seen out.old) }
    ensures met { result ≡ true → DepositMeets (behind pending_deposit.old) name.now
        (out_seen out.old) (behind pending_deposit.new) (out_seen out.new) }
    ensures none { result ≡ false → NoneIsDeposited (behind pending_deposit.old) name.now }
    ensures still { result ≡ false → behind pending_deposit.new ≡ behind pending_deposit.old }
    ensures out { result ≡ false → out_seen out.new ≡ out_seen out.old }
{
    let Some(pending) = pending_deposit else {
        return false;
    };
    if pending.name != *name {
        return false;
    }
    meet_two(out, &mut pending.link);
    true
}

/// Lets an out end meet the end of the link of that name to the member that receives it: whether there is one.
fn meet_member(members: &mut [Party], out: &mut RingOut<Load>, name: &LinkName) -> bool
    requires from_one { 1 ≤ name.now.to.0 }
    requires may { NodeMayMeet (slice_index_or (map shown_in members.old) (name.now.to.0 - 1) no_shown)
        name.now (out_seen out.old) }
    ensures inside { result ≡ true → name.now.to.0 - 1 < length members.old }
    ensures met { result ≡ true → NodeMeets
        (slice_index_or (map shown_in members.old) (name.now.to.0 - 1) no_shown) name.now
        (out_seen out.old)
        (slice_index_or (map shown_in members.old) (name.now.to.0 - 1) no_shown)
        (slice_index_or (map shown_in members.new) (name.now.to.0 - 1) no_shown)
        (out_seen out.new) }
    ensures others { result ≡ true → map shown_in members.new
        ≡ slice_set (map shown_in members.old) (name.now.to.0 - 1)
        (slice_index_or (map shown_in members.new) (name.now.to.0 - 1) no_shown) }
    ensures none { result ≡ false → HasNone
        (slice_index_or (map shown_in members.old) (name.now.to.0 - 1) no_shown).held name.now }
    ensures still { result ≡ false → map shown_in members.new ≡ map shown_in members.old }
    ensures out { result ≡ false → out_seen out.new ≡ out_seen out.old }
    ensures keeps { map keeps_in members.new ≡ map keeps_in members.old }
{
    let receiver = name.to.0 as usize - 1;
    if receiver >= members.len() {
        return false;
    }
    meet_node(&mut members[receiver].node, out, name)
}

/// The out end of a member, where it has one, with the name of its link. Of one that runs it hasn't ended.
fn lend_out(node: &mut Node) -> Option<(LinkName, RingOut<Load>)>
    ensures none { IfNone result ((shown_of node.old).ends.out ≡ None) }
    ensures still { IfNone result (shown_of node.new ≡ shown_of node.old) }
    ensures named { IfSome result (λ lent. out_name_of (shown_of node.old).held ≡ Some lent.0) }
    ensures there { IfSome result (λ lent. (shown_of node.old).ends.out ≡ Some (out_seen lent.1)) }
    ensures lent { IfSome result (λ _. shown_of node.new ≡ lent_out (shown_of node.old)) }
    ensures unended { IfSome result (λ lent. runs_phase (shown_of node.old).held.phase ≡ true
        → (out_seen lent.1).ended ≡ false) }
{
    let name = node.out_name()?;
    let out = node.lend_out()?;
    Some((name, out))
}

/// Gives it back.
fn give_out(node: &mut Node, out: RingOut<Load>)
    requires lent { (shown_of node.old).ends.out ≡ None }
    requires sends { IsSome (shown_of node.old).held.out }
    requires unended { runs_phase (shown_of node.old).held.phase ≡ true → (out_seen out).ended ≡ false }
    ensures { shown_of node.new ≡ with_out (shown_of node.old) (out_seen out) }
{
    node.give_out(out);
}

impl Parties {
    ghost use Rattle.std.specs.Prelude.{◌≡◌, ◌<◌, length, IfSome};
    ghost use Rattle.gm_member.specs.Shown.{in_name_of};
    ghost use Rattle.ring_parties.specs.Parties.{out_seen, node_at};
    ghost use Rattle.ring_parties.specs.Meeting.{MayMeet, MeetsIn, MayMeetOut, MeetsOut};
    ghost use Rattle.ring_parties.specs.Replaced.{IsMember, sender_in, SendersSomewhere, MeetsSenders, MovedSomewhere};
    ghost use Rattle.ring_parties.specs.Replaced.{MeetsMoved};

    /// Lets an out end meet the in end of the link of that name, wherever that stands. It takes no memory.
    pub(crate) fn meet_in(&mut self, out: &mut RingOut<Load>, name: &LinkName)
        requires { MayMeet (self.old).all name.now (out_seen out.old) }
        ensures meets { MeetsIn (self.old).all name.now (out_seen out.old)
            (self.old).all (self.new).all (out_seen out.new) }
        ensures keeps { (self.new).keeps ≡ (self.old).keeps }
    {
        if meet_member(&mut self.members, out, name) {
            return;
        }
        if meet_deposit(&mut self.registrar, out, name) {
            return;
        }
        meet_pending(&mut self.pending_deposit, out, name);
    }

    /// Lets the out end of the member at a place meet the in end of its link, where it has one. It takes no memory.
    fn meet_out(&mut self, i: usize)
        requires within { i < length (self.old).all.nodes }
        requires may { MayMeetOut (self.old).all i }
        ensures meets { MeetsOut i (self.old).all (self.new).all }
        ensures keeps { (self.new).keeps ≡ (self.old).keeps }
    {
        let Some((name, mut out)) = lend_out(&mut self.members[i].node) else {
            return;
        };
        self.meet_in(&mut out, &name);
        give_out(&mut self.members[i].node, out);
    }

    /// The name of the link from which the member at a place takes, where it takes from one.
    fn taken_from(&self, i: usize) -> Option<LinkName>
        requires { i < length (self.now).all.nodes }
        ensures { in_name_of (node_at (self.now).all i).held 0 ≡ result }
    {
        self.members[i].node.in_name(0)
    }

    /// Lets the out end of who sends on the link of that name meet its other end, where there is a name.
    fn meet_sender(&mut self, name: Option<LinkName>)
        requires from { IfSome name (λ n. IsMember n.from.0 (self.old).all) }
        requires between { SendersSomewhere (sender_in name) (self.old).all }
        ensures meets { MeetsSenders (sender_in name) (self.old).all (self.new).all }
        ensures keeps { (self.new).keeps ≡ (self.old).keeps }
    {
        let Some(name) = name else {
            return;
        };
        self.meet_out(name.from.0 as usize - 1);
    }

    /// Lets the ends meet that an event of the member at a place may have moved: those of the link on which it sends,
    /// and of that from which it takes. It takes no memory.
    pub(crate) fn meet_moved(&mut self, i: usize)
        requires within { i < length (self.old).all.nodes }
        requires moved { MovedSomewhere i (self.old).all }
        ensures meets { MeetsMoved i (self.old).all (self.new).all }
        ensures keeps { (self.new).keeps ≡ (self.old).keeps }
    {
        let taken = self.taken_from(i);
        self.meet_out(i);
        self.meet_sender(taken);
    }
}
