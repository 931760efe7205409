//! Recovers records, of one queue and of both.

ghost use Rattle.std.specs.Prelude.{◌≡◌, ◌≢◌, ◌⊎◌, map, IfOk, IfErr, OnOk};
ghost use Rattle.raft_plain.specs.Common.{Append, ArePartsOf, Rewrite, IsInvalidArgument, IsRecovered, AreBothRecovered, CannotFollow, HoldsFrom, EachHolds, StopsAmong, IsNothing, Sound, recovered_shown, cleaned_by_steps, region_step_shown, live_in_all, tables_shown};

use crate::live::count_live;
use crate::overlay::overlay_regions;
use crate::parts::{check_parts, read_parts};
use crate::region::Regions;
use raft_base::{AllocResult, Error, LogQueue, Result};
use raft_history::RegionStep;
use raft_records::FilePart;
use raft_table::Step;
use std::alloc::Global;

/// What a recovery gives.
#[derive(Drop)]
pub struct Recovered {
    /// The records of each region.
    pub regions: Regions,
    /// The regions that were cleaned, in order.
    pub cleaned: Vec<u64>,
    /// How many records are live in the append queue.
    pub append: u128,
    /// How many records are live in the rewrite queue.
    pub rewrite: u128,
}

/// Recovers the records of all regions from `parts`, parts of files of `queue`, by reading their batches in
/// order.
///
/// # Errors
///
/// `InvalidArgument` for a part of another queue; those of [`read_parts`].
pub fn recover_plainly(alloc: Global, queue: LogQueue, parts: &[FilePart]) -> Result<Recovered>
    ensures ok { IfOk result (λ r. IsRecovered queue (EachHolds (λ part. HoldsFrom part 0) parts.entry.now) (recovered_shown r)) }
    ensures accepted { OnOk result (ArePartsOf queue parts.entry.now) }
    ensures place { ArePartsOf queue parts.entry.now
        → IfErr result (λ e. e ≢ Error.Memory → StopsAmong IsNothing Sound parts.entry.now e) }
    ensures refused { ArePartsOf queue parts.entry.now → IfErr result (λ e. e ≢ Error.Memory
        → CannotFollow (EachHolds (λ part. HoldsFrom part 0) parts.entry.now) IsNothing) }
    ensures fault { ¬ (ArePartsOf queue parts.entry.now)
        → IfErr result (λ e. e ≢ Error.Memory → IsInvalidArgument e) }
{
    check_parts(alloc, queue, parts)?;
    let reading = read_parts(alloc, queue, parts)?;
    let cleaned = cleaned_regions(alloc, queue, reading.steps.as_slice())?;
    Ok(recovered_with_counts(reading.regions, cleaned))
}

/// Recovers the records of all regions from `rewrite` and `append`, parts of files of both queues: reads each
/// queue in order, and puts the records of the append queue over those of the rewrite queue.
///
/// # Errors
///
/// `InvalidArgument` for a part of another queue; those of [`read_parts`] for the parts of either queue.
pub fn recover_both_plainly(
    alloc: Global,
    rewrite: &[FilePart],
    append: &[FilePart],
) -> Result<Recovered>
    ensures ok { IfOk result (λ r. AreBothRecovered (EachHolds (λ part. HoldsFrom part 0) rewrite.entry.now) (EachHolds (λ part. HoldsFrom part 0) append.entry.now) (recovered_shown r)) }
    ensures accepted { OnOk result (ArePartsOf Rewrite rewrite.entry.now × ArePartsOf Append append.entry.now) }
    ensures place { ArePartsOf Rewrite rewrite.entry.now × ArePartsOf Append append.entry.now
        → IfErr result (λ e. e ≢ Error.Memory
        → StopsAmong IsNothing Sound rewrite.entry.now e
        ⊎ StopsAmong IsNothing Sound append.entry.now e) }
    ensures refused { ArePartsOf Rewrite rewrite.entry.now × ArePartsOf Append append.entry.now
        → IfErr result (λ e. e ≢ Error.Memory
        → CannotFollow (EachHolds (λ part. HoldsFrom part 0) rewrite.entry.now) IsNothing
        ⊎ CannotFollow (EachHolds (λ part. HoldsFrom part 0) append.entry.now) IsNothing) }
    ensures fault { ¬ (ArePartsOf Rewrite rewrite.entry.now × ArePartsOf Append append.entry.now)
        → IfErr result (λ e. e ≢ Error.Memory → IsInvalidArgument e) }
{
    check_parts(alloc, LogQueue::Rewrite, rewrite)?;
    check_parts(alloc, LogQueue::Append, append)?;
    let older = read_parts(alloc, LogQueue::Rewrite, rewrite)?;
    let newer = read_parts(alloc, LogQueue::Append, append)?;
    let regions = overlay_regions(alloc, newer.regions, older.regions, newer.steps.as_slice())?;
    let cleaned = cleaned_regions(alloc, LogQueue::Append, newer.steps.as_slice())?;
    Ok(recovered_with_counts(regions, cleaned))
}

/// Returns the ids of the regions that `steps` of `queue` clean, in order. For the rewrite queue, whose
/// cleans aren't listed, there are none.
///
/// # Errors
///
/// `AllocError` if there is no memory.
fn cleaned_regions(alloc: Global, queue: LogQueue, steps: &[RegionStep]) -> AllocResult<Vec<u64>>
    ensures { IfOk result (λ regions. regions.items
        ≡ cleaned_by_steps queue (map region_step_shown steps.now)) }
{
    let mut cleaned = Vec::new(alloc);
    if queue == LogQueue::Rewrite {
        return Ok(cleaned);
    }
    for step in steps {
        if let Step::Clean = step.step {
            cleaned.push(step.region)?;
        }
    }
    Ok(cleaned)
}

/// Returns `regions` and `cleaned` as what a recovery gives, with the counts of live records in both queues.
fn recovered_with_counts(regions: Regions, cleaned: Vec<u64>) -> Recovered
    ensures regions { result.regions ≡ regions }
    ensures cleaned { result.cleaned ≡ cleaned }
    ensures append { result.append ≡ live_in_all Append (tables_shown regions) }
    ensures rewrite { result.rewrite ≡ live_in_all Rewrite (tables_shown regions) }
{
    let append = count_live(LogQueue::Append, &regions);
    let rewrite = count_live(LogQueue::Rewrite, &regions);
    Recovered {
        regions,
        cleaned,
        append,
        rewrite,
    }
}
