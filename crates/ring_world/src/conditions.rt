//! When an event may happen, of what concerns members and links.
ghost use Rattle.std.specs.Prelude.{ℕ, ◌≡◌, ◌<◌, suc, false, length, Option, Some, None, OnOk, IfOk, IfErr};
ghost use Rattle.ring_names.specs.declared.reason.Reason.{Reason};
ghost use Rattle.ring_names.specs.declared.reason.Reason.TheVariants as reason;
ghost use Rattle.ring_rules.specs.Refusal.{answer_of};
ghost use Rattle.ring_rules.specs.declared.phase.Phase.TheVariants as phase;
ghost use Rattle.ring_rules.specs.Machine.{member_at};
ghost use Rattle.ring_rules.specs.Event.{is_stopped, up_refusal, running_refusal, on_link, put_refusal, take_refusal};
ghost use Rattle.ring_rules.specs.Event.{end_refusal, gain_refusal, version_refusal};
ghost use Rattle.ring_world.specs.Placed.{IsPlacedAt};
ghost use Rattle.ring_world.specs.Shows.{world_of};

use crate::state::Ring;
use ring_names::Reason;

/// The first packet is of a version that the member has.
pub(crate) fn is_known(need: u32, have: u32) -> Result<(), Reason>
    ensures { result ≡ answer_of (version_refusal need have) }
{
    if have < need {
        return Err(Reason::ViewTooOld { need, have });
    }
    Ok(())
}

/// Whether the member at a place may publish.
#[tactic(auto, using(crate::proofs::code::ShownParts::read_member))]
pub(crate) fn may_cast(ring: &Ring, place: usize) -> Result<(), Reason>
    requires { place < length ring.now.members.items }
    ensures { result ≡ answer_of (up_refusal (world_of ring.now) (suc place) None) }
{
    ring.members[place].phase.is_up()?;
    Ok(())
}

/// A ring by itself has no copies: who is up waits for them.
#[tactic(auto, using(crate::proofs::code::ShownParts::read_member))]
pub(crate) fn may_copy(ring: &Ring, place: usize) -> Result<(), Reason>
    requires { place < length ring.now.members.items }
    ensures { result ≡ answer_of (up_refusal (world_of ring.now) (suc place) (Some reason.Waiting)) }
{
    ring.members[place].phase.is_up()?;
    Err(Reason::Waiting)
}

/// The link on which the member at a place sends, where it is up.
#[tactic(auto, using(crate::proofs::code::ShownParts::read_member, crate::proofs::code::Found::out_within))]
fn out_link(ring: &Ring, place: usize) -> Result<usize, Reason>
    requires { IsPlacedAt ring.now place }
    ensures up { OnOk result ((member_at (world_of ring.now) (suc place)).phase ≡ phase.Up) }
    ensures out { IfOk result (λ out. (member_at (world_of ring.now) (suc place)).out ≡ Some out) }
    ensures within { IfOk result (λ out. out < length ring.now.links.items) }
    ensures err { IfErr result (λ r. (later : ℕ → Option Reason) → up_refusal (world_of ring.now) (suc place)
        (on_link (member_at (world_of ring.now) (suc place)).out reason.NoOutLink later) ≡ Some r) }
{
    let member = &ring.members[place];
    member.phase.is_up()?;
    let out = member.out.ok_or(Reason::NoOutLink)?;
    Ok(out)
}

/// Whether it may put a packet on that link.
#[tactic(auto, using(crate::proofs::code::ShownParts::read_member, crate::proofs::code::ShownParts::read_link))]
fn may_put_on(ring: &Ring, place: usize, out: usize) -> Result<(), Reason>
    requires place { place < length ring.now.members.items }
    requires out { out < length ring.now.links.items }
    ensures { result ≡ answer_of (put_refusal (world_of ring.now) (suc place) out) }
{
    let link = &ring.links[out];
    if link.is_blocked() {
        return Err(Reason::NoCredit);
    }
    if link.has_nothing_new(ring.members.len() + 1, &ring.members[place]) {
        return Err(Reason::NothingNew);
    }
    Ok(())
}

/// Whether it may put a packet.
pub(crate) fn may_put(ring: &Ring, place: usize) -> Result<(), Reason>
    requires { IsPlacedAt ring.now place }
    ensures { result ≡ answer_of (up_refusal (world_of ring.now) (suc place)
        (on_link (member_at (world_of ring.now) (suc place)).out reason.NoOutLink
        (put_refusal (world_of ring.now) (suc place)))) }
{
    let out = out_link(ring, place)?;
    may_put_on(ring, place, out)
}

/// Whether it may gain credit.
#[tactic(auto, using(crate::proofs::code::ShownParts::read_link))]
pub(crate) fn may_gain(ring: &Ring, place: usize) -> Result<(), Reason>
    requires { IsPlacedAt ring.now place }
    ensures { result ≡ answer_of (up_refusal (world_of ring.now) (suc place)
        (on_link (member_at (world_of ring.now) (suc place)).out reason.NoOutLink
        (gain_refusal (world_of ring.now)))) }
{
    let out = out_link(ring, place)?;
    if ring.links[out].has_no_grant() {
        return Err(Reason::NoGrant);
    }
    Ok(())
}

/// The link from which the member at a place takes, where it runs.
#[tactic(auto, using(crate::proofs::code::ShownParts::read_member, crate::proofs::code::Found::current_within))]
fn current_link(ring: &Ring, place: usize) -> Result<usize, Reason>
    requires { IsPlacedAt ring.now place }
    ensures current { IfOk result (λ s. (member_at (world_of ring.now) (suc place)).current ≡ Some s) }
    ensures runs { OnOk result (is_stopped (member_at (world_of ring.now) (suc place)).phase ≡ false) }
    ensures within { IfOk result (λ s. s < length ring.now.links.items) }
    ensures err { IfErr result (λ r. (later : ℕ → Option Reason) → running_refusal (world_of ring.now) (suc place)
        (on_link (member_at (world_of ring.now) (suc place)).current reason.NoCurrentLink later) ≡ Some r) }
{
    let member = &ring.members[place];
    member.phase.runs()?;
    let current = member.current.ok_or(Reason::NoCurrentLink)?;
    Ok(current)
}

/// Whether it may take a packet.
#[tactic(auto, using(crate::proofs::code::ShownParts::read_member, crate::proofs::code::ShownParts::read_link))]
pub(crate) fn may_take(ring: &Ring, place: usize) -> Result<(), Reason>
    requires { IsPlacedAt ring.now place }
    ensures { result ≡ answer_of (running_refusal (world_of ring.now) (suc place)
        (on_link (member_at (world_of ring.now) (suc place)).current reason.NoCurrentLink
        (take_refusal (world_of ring.now) (suc place)))) }
{
    let current = current_link(ring, place)?;
    let link = &ring.links[current];
    if link.holds_nothing() {
        return Err(Reason::NothingToTake);
    }
    if link.is_empty() {
        return Err(Reason::EndNext);
    }
    is_known(link.oldest().version, ring.members[place].version)
}

/// Whether it may take the end of its link.
#[tactic(auto, using(crate::proofs::code::ShownParts::read_link))]
pub(crate) fn may_take_end(ring: &Ring, place: usize) -> Result<(), Reason>
    requires { IsPlacedAt ring.now place }
    ensures { result ≡ answer_of (running_refusal (world_of ring.now) (suc place)
        (on_link (member_at (world_of ring.now) (suc place)).current reason.NoCurrentLink
        (end_refusal (world_of ring.now)))) }
{
    let current = current_link(ring, place)?;
    let link = &ring.links[current];
    if link.holds_nothing() {
        return Err(Reason::NothingToTake);
    }
    if !link.is_empty() {
        return Err(Reason::PacketNext);
    }
    Ok(())
}

/// Whether it may stop.
#[tactic(auto, using(crate::proofs::code::ShownParts::read_member))]
pub(crate) fn may_stop(ring: &Ring, place: usize) -> Result<(), Reason>
    requires { place < length ring.now.members.items }
    ensures { result ≡ answer_of (running_refusal (world_of ring.now) (suc place) None) }
{
    ring.members[place].phase.runs()?;
    Ok(())
}
