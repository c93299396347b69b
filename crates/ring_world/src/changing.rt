//! A member has the group change, and reads the view that follows.
ghost use Rattle.std.specs.Prelude.{◌≡◌, ◌<◌, ◌+◌, suc, ◌-◌, take, length, vec_len, vec_capacity, OnOk, OnErr};
ghost use Rattle.ring_rules.specs.Machine.{newest as the_newest};
ghost use Rattle.ring_rules.specs.Step.{with_view};
ghost use Rattle.ring_rules.specs.Event.{refreshed};
ghost use Rattle.ring_world.specs.Placed.{IsUpAt};
ghost use Rattle.ring_world.specs.Shows.{world_of};

use crate::neighbours::newest;
use crate::refreshing::refresh;
use crate::state::Ring;
use group_view::View;
use ring_names::OutOfMemory;
use std::alloc::Global;

/// A view follows the others.
fn push_view(ring: &mut Ring, view: View) -> Result<(), OutOfMemory>
    ensures ok { OnOk result (world_of ring.new ≡ with_view (world_of ring.old) view) }
    ensures members { ring.new.members ≡ ring.old.members }
    ensures err { OnErr result (world_of ring.new ≡ world_of ring.old) }
{
    ring.views.push(view)?;
    Ok(())
}

/// The last view is gone.
fn pop_view(views: &mut Vec<View>)
    ensures { views.new.items ≡ take (length views.old.items - 1) views.old.items }
{
    views.pop();
}

/// The member at a place has this view follow the others, and reads it.
#[tactic(auto, using(crate::proofs::code::Viewed::viewed_placed))]
pub(crate) fn change(
    alloc: Global,
    ring: &mut Ring,
    place: usize,
    view: View,
) -> Result<(), OutOfMemory>
    requires more { the_newest (world_of ring.old) < 256 }
    requires up { IsUpAt ring.old place }
    ensures ok { OnOk result (world_of ring.new
        ≡ refreshed (with_view (world_of ring.old) view) (suc place) (the_newest (world_of ring.old) + 1)) }
    ensures err { OnErr result (world_of ring.new ≡ world_of ring.old) }
    ensures members { vec_len ring.new.members ≡ vec_len ring.old.members }
    ensures members_room { vec_capacity ring.new.members ≡ vec_capacity ring.old.members }
{
    let version = newest(ring) + 1;
    push_view(ring, view)?;
    if refresh(alloc, ring, place, version).is_err() {
        pop_view(&mut ring.views);
        return Err(OutOfMemory);
    }
    Ok(())
}
