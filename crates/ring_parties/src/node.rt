//! A member over ring ends, and what it does by itself.
ghost use Rattle.std.specs.Prelude.{◌≡◌, ◌∷◌, ◌≤◌, [], List, Option, length, OnOk, OnErr, IfOk, IsOk, None, Some};
ghost use Rattle.gm_member.specs.Held.{put_refused, pick_refused};
ghost use Rattle.ring_parties.specs.Ends.{PacketShown};
ghost use Rattle.ring_parties.specs.Keeps.{ops_taken, ops_next, messages_on, own_known, round_next};
ghost use Rattle.ring_parties.specs.Parties.{shown_of};
ghost use Rattle.ring_parties.specs.Alone.{IsAlone};
ghost use Rattle.ring_parties.specs.Acting.{IsReady, packet_refused, link_end_refused, grant_refused};
ghost use Rattle.ring_parties.specs.Acting.{first_item, stop_refused, PutsPacket, TakesPacket, TakesEnd, Gains, Halts};
ghost use Rattle.ring_parties.specs.Acting.{Picks};
ghost use Rattle.ring_parties.specs.Tried.{IsJudged, Tries};

use activity::Load;
use gm_member::{Member, Taken};
use ordered_link::{RingIn, RingOut};
use ring_names::OutOfMemory;
use ring_rules::Refused;

/// A member whose links are ring pairs.
pub type Node = Member<RingOut<Load>, RingIn<Load>>;

/// The number of a round in which a member is alone: no stamp of it has a time.
const ALONE: u32 = 0;

/// The member is alone in its round from now on, and has room to record what it does next.
pub(crate) fn be_alone(node: &mut Node) -> Result<(), OutOfMemory>
    ensures alone { OnOk result (IsAlone node.new) }
    ensures same { shown_of node.new ≡ shown_of node.old }
{
    node.begin(ALONE, true, 1)
}

/// The member puts its next packet, where that is enabled.
pub(crate) fn put(node: &mut Node) -> Result<(), Refused>
    requires ready { IsReady (shown_of node.old) }
    requires alone { IsAlone node.old }
    ensures { Tries (put_refused (shown_of node.old).held) PutsPacket (shown_of node.old) (shown_of node.new) result }
{
    node.put()?;
    Ok(())
}

/// The member takes the oldest packet of the link from which it takes, where there is one: what that brings.
pub(crate) fn take(node: &mut Node) -> Result<Vec<Taken>, Refused>
    requires ready { IsReady (shown_of node.old) }
    requires alone { IsAlone node.old }
    ensures judged { IsJudged (packet_refused (shown_of node.old)) result }
    ensures ok { OnOk result (TakesPacket (shown_of node.old) (shown_of node.new)) }
    ensures ops { IfOk result (λ taken. ops_taken taken.items ≡ ops_next (shown_of node.old)) }
    ensures round { OnOk result ((own_known (shown_of node.new).held).forgot ≡ round_next (shown_of node.old)) }
    ensures few { IfOk result (λ taken. (k : PacketShown) (rest : List (Option PacketShown))
        → first_item (shown_of node.old).ends.link ≡ Some k ∷ rest → length taken.items ≤ messages_on k.lines) }
    ensures there { OnOk result ((k : PacketShown) × (rest : List (Option PacketShown))
        × (first_item (shown_of node.old).ends.link ≡ Some k ∷ rest)) }
    ensures err { OnErr result (shown_of node.new ≡ shown_of node.old) }
{
    let taken = node.take()?;
    Ok(taken)
}

/// The member takes the end of that link, where it is next, and leaves it.
pub(crate) fn take_end(node: &mut Node) -> Result<(), Refused>
    requires ready { IsReady (shown_of node.old) }
    requires alone { IsAlone node.old }
    ensures { Tries (link_end_refused (shown_of node.old)) TakesEnd (shown_of node.old) (shown_of node.new) result }
{
    node.take_end()?;
    drop_old_ins(node);
    Ok(())
}

/// The ends that the member has left are dropped.
pub(crate) fn drop_old_ins(node: &mut Node)
    ensures held { (shown_of node.new).held ≡ (shown_of node.old).held }
    ensures ends { (shown_of node.new).ends ≡ record (shown_of node.old).ends { old_ins = [] } }
{
    while let Some(_left) = node.old_in() {}
}

/// The member gains the oldest grant that came back, where there is one.
pub(crate) fn gain(node: &mut Node) -> Result<(), Refused>
    requires ready { IsReady (shown_of node.old) }
    requires alone { IsAlone node.old }
    ensures { Tries (grant_refused (shown_of node.old)) Gains (shown_of node.old) (shown_of node.new) result }
{
    if let Some(reason) = node.gain_refusal() {
        return Err(Refused::NotEnabled(reason));
    }
    let Some(grant) = node.granted() else {
        unreachable!()
    };
    match node.gain(grant) {
        Ok(()) => Ok(()),
        Err(_) => unreachable!(),
    }
}

/// The member stops, where it acts.
pub(crate) fn stop(node: &mut Node) -> Result<(), Refused>
    requires ready { IsReady (shown_of node.old) }
    requires alone { IsAlone node.old }
    ensures tries { Tries (stop_refused (shown_of node.old)) Halts (shown_of node.old) (shown_of node.new) result }
    ensures succeeds { stop_refused (shown_of node.old) ≡ None → IsOk result }
{
    node.stop()?;
    Ok(())
}

/// The member takes from now on from the first link at its door that it may, where there is one.
pub(crate) fn pick(node: &mut Node) -> Result<(), Refused>
    requires ready { IsReady (shown_of node.old) }
    requires alone { IsAlone node.old }
    ensures { Tries (pick_refused (shown_of node.old).held) Picks (shown_of node.old) (shown_of node.new) result }
{
    node.pick()?;
    Ok(())
}
