//! Reads batches, one after the other.

ghost use Rattle.std.specs.Prelude.{◌≡◌, ◌≢◌, ◌++◌, ◌∷◌, [], List, Some, None, map, IfOk, IfErr};
ghost use Rattle.raft_plain.specs.Common.{nat_cmp, IsOrdered, AreDecodedIn, event, Event, Sound, HasRead, tables_shown, tables_after, region_step_shown, steps_of_items};

use crate::Reading;
use crate::groups::{apply_marker, find_group_marker, join_steps};
use crate::region::{Regions, apply_step_to_region, region_or_empty, set_region, take_region};
use raft_base::{AllocResult, Error, FileId, LogQueue, Result};
use raft_history::RegionStep;
use raft_records::LogItemBatch;
use std::alloc::Global;

/// Returns what `reading` and then `batch` give, which was written to the file `file` of `queue`. The steps
/// of the batch take effect at once or, if it has a group marker, wait for the End of their group.
///
/// # Errors
///
/// `Corruption` if the file is numbered below the last one, a group marker has an unknown status, or a run
/// leaves a hole in the append queue; `Memory`.
pub(crate) fn apply_batch(
    alloc: Global,
    queue: LogQueue,
    reading: Reading,
    batch: LogItemBatch,
    file: FileId,
) -> Result<Reading>
    requires queue { file.queue ≡ queue }
    requires items { AreDecodedIn file batch }
    ensures ok { (h : List Event) → HasRead queue reading h
        → IfOk result (λ new. HasRead queue new (h ++ event batch file ∷ [])) }
    ensures refused { IfErr result (λ e. e ≢ Error.Memory → (h : List Event)
        → HasRead queue reading h → ¬ (Sound (h ++ event batch file ∷ []))) }
{
    if file.seq < reading.last {
        return Err(Error::corruption(alloc, "a file out of order"));
    }
    let marker = find_group_marker(alloc, queue, batch.as_slice())?;
    let own = steps_in_batch(alloc, batch)?;
    let (waiting, effect) = apply_marker(alloc, reading.waiting, marker, own, file.seq)?;
    let regions = apply_steps(alloc, queue, reading.regions, effect.as_slice())?;
    let steps = join_steps(reading.steps, effect)?;
    let last = file.seq;
    Ok(Reading {
        regions,
        steps,
        last,
        waiting,
    })
}

/// Returns the steps of the items of `batch`, in order. Items without a step, such as group markers, are left
/// out.
///
/// # Errors
///
/// `AllocError` if there is no memory.
fn steps_in_batch(alloc: Global, batch: LogItemBatch) -> AllocResult<Vec<RegionStep>>
    ensures { IfOk result (λ steps. map region_step_shown steps.items ≡ steps_of_items batch) }
{
    let mut steps = Vec::new(alloc);
    for item in batch.into_items() {
        if let Some(step) = RegionStep::of_item(item) {
            steps.push(step)?;
        }
    }
    Ok(steps)
}

/// Returns `regions` after `steps`, which were read from `queue`, one after another.
///
/// # Errors
///
/// `Corruption` if a run leaves a hole in the append queue; `Memory`.
fn apply_steps(
    alloc: Global,
    queue: LogQueue,
    mut regions: Regions,
    steps: &[RegionStep],
) -> Result<Regions>
    requires { IsOrdered nat_cmp regions }
    ensures ordered { IfOk result (IsOrdered nat_cmp) }
    ensures ok { IfOk result (λ new. tables_after queue (tables_shown regions)
        (map region_step_shown steps.now) ≡ Some (tables_shown new)) }
    ensures refused { IfErr result (λ e. e ≢ Error.Memory → tables_after queue
        (tables_shown regions) (map region_step_shown steps.now) ≡ None) }
{
    for step in steps {
        regions = apply_step(alloc, queue, regions, step)?;
    }
    Ok(regions)
}

/// Returns `regions` after `step`, which was read from `queue`. A region that isn't there begins without
/// records.
///
/// # Errors
///
/// `Corruption` if a run leaves a hole in the append queue; `Memory`.
fn apply_step(
    alloc: Global,
    queue: LogQueue,
    regions: Regions,
    step: &RegionStep,
) -> Result<Regions>
    requires { IsOrdered nat_cmp regions }
    ensures ordered { IfOk result (IsOrdered nat_cmp) }
    ensures ok { IfOk result (λ new. tables_after queue (tables_shown regions)
        (region_step_shown step.now ∷ []) ≡ Some (tables_shown new)) }
    ensures refused { IfErr result (λ e. e ≢ Error.Memory → tables_after queue
        (tables_shown regions) (region_step_shown step.now ∷ []) ≡ None) }
{
    let (own, others) = take_region(regions, step.region);
    let new = apply_step_to_region(alloc, queue, region_or_empty(alloc, own), &step.step)?;
    Ok(set_region(others, step.region, new)?)
}
