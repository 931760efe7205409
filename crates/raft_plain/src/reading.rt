//! What the batches of a queue gave that were read so far.

ghost use Rattle.std.proofs.Props.{props};
ghost use Rattle.std.specs.BTreeMap.{IsOrdered};
ghost use Rattle.std.specs.Ordering.{nat_cmp};

use crate::groups::Stretches;
use crate::region::Regions;
use raft_base::FileSeq;
use raft_history::RegionStep;
use std::alloc::Global;
use std::collections::BTreeMap;

/// What the batches of a queue gave that were read so far.
#[derive(Drop)]
pub struct Reading {
    /// The records of each region.
    pub regions: Regions,
    /// All steps that took effect, in order.
    pub steps: Vec<RegionStep>,
    /// The number of the file of the last batch, or 0 before the first one.
    pub last: FileSeq,
    /// The steps that wait for the End of their atomic group.
    pub waiting: Stretches,
    ghost ordered: { IsOrdered nat_cmp regions } by { Prim.hlevel props },
    ghost waiting_ordered: { IsOrdered nat_cmp waiting } by { Prim.hlevel props },
}

impl Reading {
    ghost use Rattle.std.specs.Prelude.{[]};
    ghost use Rattle.raft_base.specs.declared.pipe_log.LogQueue.{LogQueue};
    ghost use Rattle.raft_plain.specs.Readings.{HasRead};

    /// Returns what no batch gives: no records, no steps, and no group that waits.
    pub fn new(alloc: Global) -> Reading
        ensures { (queue : LogQueue) → HasRead queue result [] }
    {
        Reading {
            regions: BTreeMap::new(alloc),
            steps: Vec::new(alloc),
            last: 0,
            waiting: BTreeMap::new(alloc),
        }
    }
}
