//! Changes of single links.
ghost use Rattle.std.specs.Prelude.{◌≡◌, ◌<◌, false, length, map, slice_set, OnOk, OnErr};
ghost use Rattle.credit_flow.specs.Credit.{is_blocked};
ghost use Rattle.ring_rules.specs.Refusal.{is_empty};
ghost use Rattle.ring_rules.specs.Step.{pushed, next_packet, finished, ended};
ghost use Rattle.ring_world.specs.Shows.{member_of, link_of, link_in, gained_on};

use crate::plain_link::PlainLink;
use crate::plain_member::PlainMember;
use ring_names::OutOfMemory;
use ring_rules::Ending;
use std::alloc::Global;

/// A member puts its next packet on a link.
#[tactic(auto, using(crate::proofs::code::Rules::putting))]
pub(crate) fn put(
    alloc: Global,
    links: &mut [PlainLink],
    out: usize,
    sender: &PlainMember,
) -> Result<(), OutOfMemory>
    requires out { out < length links.old }
    requires credit { is_blocked (link_in links.old out).flow.sender ≡ false }
    ensures ok { OnOk result (map link_of links.new ≡ slice_set (map link_of links.old) out
        (pushed (link_in links.old out)
        (next_packet (member_of sender.now) (link_in links.old out).sending))) }
    ensures err { OnErr result (map link_of links.new ≡ map link_of links.old) }
{
    links[out].put(alloc, sender.version, sender)?;
    Ok(())
}

/// The oldest grant on a link becomes credit.
#[tactic(auto, using(crate::proofs::code::ShownParts::read_link, crate::proofs::code::ShownParts::gained_links))]
pub(crate) fn gain(links: &mut [PlainLink], out: usize)
    requires out { out < length links.old }
    requires some { is_empty (link_in links.old out).flow.grants ≡ false }
    ensures { map link_of links.new
        ≡ slice_set (map link_of links.old) out (gained_on (link_in links.old out)) }
{
    links[out].gain();
}

/// The end of a link was taken.
#[tactic(auto, using(crate::proofs::code::ShownParts::finished_links))]
pub(crate) fn finish(links: &mut [PlainLink], current: usize)
    requires { current < length links.old }
    ensures { map link_of links.new
        ≡ slice_set (map link_of links.old) current (finished (link_in links.old current)) }
{
    links[current].finish();
}

/// A link ends so, if it hasn't ended yet.
#[tactic(auto, using(crate::proofs::code::ShownParts::ended_links))]
pub(crate) fn end(links: &mut [PlainLink], out: usize, why: Ending)
    requires { out < length links.old }
    ensures { map link_of links.new
        ≡ slice_set (map link_of links.old) out (ended why (link_in links.old out)) }
{
    links[out].end(why);
}
