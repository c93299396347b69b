//! The summary of the ring behind a load script.
ghost use Rattle.std.specs.Prelude.{◌≡◌, map, IfOk};
ghost use Rattle.queue_core.specs.Shown.{item_of};
ghost use Rattle.ring_cluster.specs.Seen.{state_of};
ghost use Rattle.ring_report.specs.Report.{newest_view};
ghost use Rattle.ring_report.specs.Summary.{summary_of, items_at, master_items};

use crate::report::{counts_at, state_at};
use queue_core::Held;
use ring_cluster::Cluster;
use ring_names::{MemberId, OutOfMemory};
use ring_report::{held_in, push_summary};
use std::alloc::Global;

/// The summary of the state in which the cluster's members stand, behind a script of so many blocks.
pub(crate) fn summary(alloc: Global, cluster: &Cluster, blocks: u32) -> Result<Vec<u8>, OutOfMemory>
    ensures { IfOk result (λ text. text.items ≡ summary_of blocks (state_of cluster.now)) }
{
    let mut states = Vec::new(alloc);
    let mut counts = Vec::new(alloc);
    for place in 0..cluster.members() as usize {
        states.push(state_at(cluster, place))?;
        counts.push(counts_at(cluster, place))?;
    }
    let held = held_by_master(alloc, cluster)?;
    let mut text = Vec::new(alloc);
    push_summary(
        alloc,
        &mut text,
        blocks,
        &states,
        &counts,
        cluster.view(),
        &held,
    )?;
    Ok(text)
}

/// The items of the master's mirror.
fn held_by_master<'a>(alloc: Global, cluster: &'a Cluster) -> Result<Vec<Held<'a>>, OutOfMemory>
    ensures { IfOk result (λ all. map item_of all.items
        ≡ master_items (state_of cluster.now) (newest_view (state_of cluster.now)).master) }
{
    match cluster.view().master {
        Some(id) => held_by(alloc, cluster, id),
        None => Ok(Vec::new(alloc)),
    }
}

/// The items of the mirror of the member of an id, where the ring has it.
fn held_by<'a>(
    alloc: Global,
    cluster: &'a Cluster,
    id: MemberId,
) -> Result<Vec<Held<'a>>, OutOfMemory>
    ensures { IfOk result (λ all. map item_of all.items ≡ items_at (state_of cluster.now) id.0) }
{
    match cluster.mirror(id) {
        Some(mirror) => held_in(alloc, mirror.queue()),
        None => Ok(Vec::new(alloc)),
    }
}
