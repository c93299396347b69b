//! The laws of the merge.
ghost use Rattle.std.specs.Prelude.{List};
ghost use Rattle.ring_rules.specs.declared.event.Event.{Event};
ghost use Rattle.lamport_merge.specs.Merge.{Log, merged, AreLogs, NeverFall, KeepsEach};

/// Each log stands whole in the merge, its entries in their order at their times, with no other entry of its
/// party; and times never fall.
pub fn merging_keeps_each_log()
    ensures own { (logs : List (Log Event)) → AreLogs logs → KeepsEach logs (merged logs) }
    ensures falls { (logs : List (Log Event)) → NeverFall 0 (merged logs) }
{}
