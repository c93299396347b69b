//! A member has a dead origin erased for which it answers.
ghost use Rattle.std.specs.Prelude.{◌≡◌, ◌<◌, ◌+◌, suc, true, length, None, IfOk, OnOk, OnErr};
ghost use Rattle.group_view.specs.Change.{erased};
ghost use Rattle.group_view.specs.View.{is_dead};
ghost use Rattle.promotion.specs.Elect.{installed};
ghost use Rattle.ring_rules.specs.declared.phase.Phase.TheVariants as phase;
ghost use Rattle.ring_rules.specs.Machine.{member_at, newest as the_newest};
ghost use Rattle.ring_rules.specs.Step.{with_view};
ghost use Rattle.ring_rules.specs.Event.{erase_refusal, erased_view, refreshed};
ghost use Rattle.ring_world.specs.Placed.{IsReadyAt};
ghost use Rattle.ring_world.specs.Shows.{world_of};

use crate::changing::change;
use crate::neighbours::{id_at, newest_view};
use crate::state::Ring;
use group_view::View;
use promotion::install;
use ring_names::{MemberId, OutOfMemory};
use std::alloc::Global;

/// The view in which an entry is erased that is dead in it, with a master where one can be elected.
#[tactic(auto, using(ring_rules::proofs::code::Looks::nobody_refuses_erasing))]
fn after_erasing(view: &View, origin: u32) -> Result<View, OutOfMemory>
    requires { is_dead (view.now).entries origin ≡ true }
    ensures { IfOk result (λ next. next ≡ installed (erased view.now origin)) }
{
    let mut next = view.copy()?;
    if next.erase(MemberId(origin)).is_err() {
        unreachable!()
    }
    install(&mut next);
    Ok(next)
}

/// The member at a place has the origin at another erased, and reads the view that follows, as
/// `gm:erase_members_in_group`.
#[tactic(auto, using(ring_rules::proofs::code::Enables::erase_dead))]
pub(crate) fn erase(
    alloc: Global,
    ring: &mut Ring,
    place: usize,
    origin: usize,
) -> Result<(), OutOfMemory>
    requires ready { IsReadyAt ring.old place }
    requires origin { origin < length ring.old.members.items }
    requires up { (member_at (world_of ring.old) (suc place)).phase ≡ phase.Up }
    requires enabled { erase_refusal (world_of ring.old) (suc place) (suc origin) ≡ None }
    ensures ok { OnOk result (world_of ring.new
        ≡ refreshed (with_view (world_of ring.old) (erased_view (world_of ring.old) (suc origin)))
        (suc place) (the_newest (world_of ring.old) + 1)) }
    ensures err { OnErr result (world_of ring.new ≡ world_of ring.old) }
{
    let next = after_erasing(newest_view(ring), id_at(origin))?;
    change(alloc, ring, place, next)
}
