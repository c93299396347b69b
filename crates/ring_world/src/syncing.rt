//! A member whose mirror lacks nothing is registered as synchronised.
ghost use Rattle.std.specs.Prelude.{◌≡◌, ◌+◌, suc, true, false, None, IfOk, OnOk, OnErr};
ghost use Rattle.group_view.specs.Change.{registered};
ghost use Rattle.group_view.specs.View.{entry_in};
ghost use Rattle.promotion.specs.Elect.{installed};
ghost use Rattle.ring_rules.specs.declared.phase.Phase.TheVariants as phase;
ghost use Rattle.ring_rules.specs.Machine.{member_at, newest as the_newest};
ghost use Rattle.ring_rules.specs.Step.{with_view};
ghost use Rattle.ring_rules.specs.Event.{synced_refusal, synced_view, refreshed};
ghost use Rattle.ring_rules.specs.View.{is_live};
ghost use Rattle.ring_world.specs.Placed.{IsReadyAt};
ghost use Rattle.ring_world.specs.Shows.{world_of};

use crate::changing::change;
use crate::neighbours::{id_at, newest_view};
use crate::state::Ring;
use group_view::View;
use promotion::install;
use ring_names::{MemberId, OutOfMemory};
use std::alloc::Global;

/// The view in which a live entry is registered that isn't yet, with a master where one can be elected.
#[tactic(auto, using(ring_rules::proofs::code::Looks::nobody_refuses_registering))]
fn after_registering(view: &View, id: u32) -> Result<View, OutOfMemory>
    requires lives { is_live view.now id ≡ true }
    requires unsynced { (entry_in (view.now).entries id).synced ≡ false }
    ensures { IfOk result (λ next. next ≡ installed (registered view.now id)) }
{
    let mut next = view.copy()?;
    if next.mark_synced(MemberId(id)).is_err() {
        unreachable!()
    }
    install(&mut next);
    Ok(next)
}

/// The member at a place is registered, and reads the view that follows.
#[tactic(auto, using(ring_rules::proofs::code::Enables::sync_unsynced))]
pub(crate) fn sync(alloc: Global, ring: &mut Ring, place: usize) -> Result<(), OutOfMemory>
    requires ready { IsReadyAt ring.old place }
    requires up { (member_at (world_of ring.old) (suc place)).phase ≡ phase.Up }
    requires enabled { synced_refusal (world_of ring.old) (suc place) ≡ None }
    ensures ok { OnOk result (world_of ring.new
        ≡ refreshed (with_view (world_of ring.old) (synced_view (world_of ring.old) (suc place)))
        (suc place) (the_newest (world_of ring.old) + 1)) }
    ensures err { OnErr result (world_of ring.new ≡ world_of ring.old) }
{
    let next = after_registering(newest_view(ring), id_at(place))?;
    change(alloc, ring, place, next)
}
