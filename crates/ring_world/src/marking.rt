//! A member has a neighbour marked dead that has stopped.
ghost use Rattle.std.specs.Prelude.{◌≡◌, ◌<◌, ◌+◌, suc, true, length, None, IfOk, OnOk, OnErr};
ghost use Rattle.group_view.specs.Change.{marked};
ghost use Rattle.ring_rules.specs.declared.phase.Phase.TheVariants as phase;
ghost use Rattle.ring_rules.specs.View.{is_live};
ghost use Rattle.ring_rules.specs.Machine.{member_at, view_in, newest as the_newest};
ghost use Rattle.ring_rules.specs.Step.{with_view};
ghost use Rattle.ring_rules.specs.Event.{mark_refusal, refreshed};
ghost use Rattle.ring_world.specs.Placed.{IsReadyAt};
ghost use Rattle.ring_world.specs.Shows.{world_of};

use crate::changing::change;
use crate::neighbours::{id_at, newest_view};
use crate::state::Ring;
use group_view::View;
use ring_names::{MemberId, OutOfMemory};
use std::alloc::Global;

/// The view without an entry that lives in it.
#[tactic(auto, using(ring_rules::proofs::code::Looks::nobody_refuses))]
fn without(view: &View, dead: u32) -> Result<View, OutOfMemory>
    requires { is_live view.now dead ≡ true }
    ensures { IfOk result (λ next. next ≡ marked view.now dead) }
{
    let mut next = view.copy()?;
    if next.mark_dead(MemberId(dead)).is_err() {
        unreachable!()
    }
    Ok(next)
}

/// The member at a place has the member at another marked dead, and reads the view that follows, as
/// `gm:record_dead_member_in_group`.
#[tactic(auto, using(ring_rules::proofs::events::Enabled::mark_lives))]
pub(crate) fn mark(
    alloc: Global,
    ring: &mut Ring,
    place: usize,
    dead: usize,
) -> Result<(), OutOfMemory>
    requires ready { IsReadyAt ring.old place }
    requires dead { dead < length ring.old.members.items }
    requires up { (member_at (world_of ring.old) (suc place)).phase ≡ phase.Up }
    requires enabled { mark_refusal (world_of ring.old) (suc place) (suc dead) ≡ None }
    ensures ok { OnOk result (world_of ring.new ≡ refreshed (with_view (world_of ring.old)
        (marked (view_in (world_of ring.old) (the_newest (world_of ring.old))) (suc dead)))
        (suc place) (the_newest (world_of ring.old) + 1)) }
    ensures err { OnErr result (world_of ring.new ≡ world_of ring.old) }
{
    let next = without(newest_view(ring), id_at(dead))?;
    change(alloc, ring, place, next)
}
