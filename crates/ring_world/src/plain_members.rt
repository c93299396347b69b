//! Changes of single members.
ghost use Rattle.std.specs.Prelude.{◌≡◌, ◌<◌, length, map, slice_set, Some, OnOk, OnErr};
ghost use Rattle.ring_rules.specs.Machine.{row_at};
ghost use Rattle.ring_rules.specs.Step.{published, with_current, stopped};
ghost use Rattle.ring_world.specs.Shows.{member_of, member_in, looked, with_out};

use crate::plain_member::PlainMember;
use queue_core::Message;
use ring_names::OutOfMemory;
use ring_rules::Phase;

/// The member at a place publishes a message.
#[tactic(auto, using(crate::proofs::code::Rules::publishing))]
pub(crate) fn publish(
    members: &mut [PlainMember],
    place: usize,
    id: usize,
    message: Message,
) -> Result<(), OutOfMemory>
    requires within { place < length members.old }
    requires row { id < length (member_in members.old place).rows }
    requires own { (row_at (member_in members.old place) id).got
        ≡ length (member_in members.old place).log }
    ensures ok { OnOk result (map member_of members.new ≡ slice_set (map member_of members.old) place
        (published id message (member_in members.old place))) }
    ensures err { OnErr result (map member_of members.new ≡ map member_of members.old) }
{
    members[place].publish(id, message)?;
    Ok(())
}

/// It takes from this link, or from none.
#[tactic(auto, using(crate::proofs::code::ShownParts::current_members))]
pub(crate) fn set_current(members: &mut [PlainMember], place: usize, current: Option<usize>)
    requires { place < length members.old }
    ensures { map member_of members.new ≡ slice_set (map member_of members.old) place
        (with_current current (member_in members.old place)) }
{
    members[place].current = current;
}

/// It stops.
#[tactic(auto, using(crate::proofs::code::ShownParts::stopped_members))]
pub(crate) fn stop(members: &mut [PlainMember], place: usize)
    requires { place < length members.old }
    ensures { map member_of members.new ≡ slice_set (map member_of members.old) place
        (stopped (member_in members.old place)) }
{
    members[place].phase = Phase::Stopped;
}

/// It has the view of a version, and this current link.
#[tactic(auto, using(crate::proofs::code::ShownParts::looked_members))]
pub(crate) fn look(members: &mut [PlainMember], place: usize, version: u32, current: Option<usize>)
    requires { place < length members.old }
    ensures { map member_of members.new ≡ slice_set (map member_of members.old) place
        (looked version current (member_in members.old place)) }
{
    members[place].look(version, current);
}

/// It sends on this link.
#[tactic(auto, using(crate::proofs::code::ShownParts::sending_members))]
pub(crate) fn set_out(members: &mut [PlainMember], place: usize, out: usize)
    requires { place < length members.old }
    ensures { map member_of members.new ≡ slice_set (map member_of members.old) place
        (with_out (Some out) (member_in members.old place)) }
{
    members[place].out = Some(out);
}
