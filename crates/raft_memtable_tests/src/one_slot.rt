//! Tests hundreds of regions of one slot, read by one context and merged into another.

use raft_memtable::{FileId, FileSeq, LogQueue, MemTable, MemTableRecoverContext, Result, slot_of};
use raft_records::{Command, LogItemBatch};
use raft_trials::again;
use std::alloc::Global;

/// How many regions of slot 5 a newer context names.
const REGIONS: usize = 300;

/// A number below which more regions than that belong to slot 5.
const LIMIT: u64 = 60_000;

/// Returns regions that all belong to slot 5.
///
/// # Errors
///
/// `Memory` alone.
fn regions_of_slot(alloc: Global) -> Result<Vec<u64>> {
    let mut regions = Vec::new(alloc);
    for region in 0..LIMIT {
        if slot_of(region) == 5 && regions.len() < REGIONS {
            regions.push(region)?;
        }
    }
    Ok(regions)
}

/// Returns a context that has replayed a batch, in append file `seq`, with a compaction of each region.
///
/// # Errors
///
/// Those of the contexts' calls; `Memory`.
fn context_with_compactions(
    alloc: Global,
    regions: &[u64],
    seq: FileSeq,
) -> Result<MemTableRecoverContext> {
    let mut batch = LogItemBatch::default(alloc);
    for &region in regions {
        batch.add_command(region, Command::Compact { index: 1 })?;
    }
    let mut context = MemTableRecoverContext::new(alloc)?;
    context.replay(batch, FileId::new(LogQueue::Append, seq))?;
    Ok(context)
}

/// Tests whether all regions have a region mark and a table once an older context, with the first `older` regions, is
/// merged with a newer one.
///
/// # Errors
///
/// Those of the contexts' calls; `Memory`.
fn are_regions_merged(alloc: Global, older: usize) -> Result<bool> {
    let regions = regions_of_slot(alloc)?;
    let first = regions.get(..older).unwrap_or(&[]);
    let mut context = context_with_compactions(alloc, first, 1)?;
    context.merge(
        context_with_compactions(alloc, regions.as_slice(), 2)?,
        LogQueue::Append,
    )?;
    let marks = context.kept()?.marks;
    let tables = context.finish()?.fold(
        0usize,
        |count: usize, _: &MemTable| count.saturating_add(1),
    );
    Ok(first.len() == older && marks == 300 && tables == REGIONS)
}

/// Tests that contexts whose regions all belong to one slot are merged, whatever share the older one has.
#[test]
fn regions_of_one_slot_are_merged(rt: HostRuntime) {
    for &older in &[0, 1, 100, 300] {
        let merged = again!(are_regions_merged(rt.alloc(), older));
        assert!(rt; matches!(merged, Ok(true)), "{older} older regions");
    }
}
