//! Times the merging of contexts, beside the reading of their batches, all on one thread.

use crate::logs::{LogTimes, read_log};
use crate::timing::{best_times, time_work};
use raft_memtable::{LogQueue, MemTableRecoverContext};
use raft_records::Result;
use raft_recover::shares::equal_shares;
use raft_recover::{Segment, replay_segment};
use std::alloc::Global;
use std::rt::Files;
use std::time::Clock;

/// How many contexts are merged, by halves.
const CONTEXTS: usize = 4;

/// Times how long it takes four contexts to read a quarter of the files each, and then to merge them by
/// halves. `words` are those of `raftlog recover`. Returns `None` for other words, and if the files have
/// fewer than four batches.
///
/// # Errors
///
/// Those of reading the files; those of [`time_reading_and_merging`]; `Memory`.
pub(crate) fn time_merges<R: Files + AllocGlobal + Clock>(
    rt: &R,
    words: &[String],
) -> Result<Option<LogTimes>> {
    let Some(log) = read_log(rt, words)? else {
        return Ok(None);
    };
    let quarters = equal_shares(rt.alloc(), log.segments.as_slice(), CONTEXTS, 1)?;
    let Ok(quarters) = <&[Segment; CONTEXTS]>::try_from(quarters.as_slice()) else {
        return Ok(None);
    };
    let ([reading, merging], ()) = best_times(|| time_reading_and_merging(
        rt, quarters, log.queue,
    ))?;
    Ok(Some(LogTimes {
        name: format!(in rt.alloc(); "four contexts on one thread")?,
        first: ("reading best", reading),
        second: ("merging best", merging),
    }))
}

/// Reads `quarters` of `queue`, and merges what was read. Returns how many nanoseconds each of the two takes.
///
/// # Errors
///
/// Those of the readings and the merges; `Io` for the clock.
fn time_reading_and_merging<R: AllocGlobal + Clock>(
    rt: &R,
    quarters: &[Segment; CONTEXTS],
    queue: LogQueue,
) -> Result<([u64; 2], ())> {
    let (reading, contexts) = time_work(rt, || read_quarters(rt.alloc(), quarters))?;
    let (older, newer) = contexts?;
    let (merging, done) = time_work(rt, || merge_by_halves(older, newer, queue))?;
    done?;
    Ok(([reading, merging], ()))
}

/// The contexts of two neighboring quarters of the files, the older one first.
type Half = (MemTableRecoverContext, MemTableRecoverContext);

/// Reads each of `quarters` into a context of its own. Returns those of the older half and those of the newer
/// half.
///
/// # Errors
///
/// Those of [`read_segment`].
fn read_quarters(alloc: Global, quarters: &[Segment; CONTEXTS]) -> Result<(Half, Half)> {
    let older = (
        read_segment(alloc, &quarters[0])?,
        read_segment(alloc, &quarters[1])?,
    );
    let newer = (
        read_segment(alloc, &quarters[2])?,
        read_segment(alloc, &quarters[3])?,
    );
    Ok((older, newer))
}

/// Returns a context that has read `segment`.
///
/// # Errors
///
/// Those of [`replay_segment`]; `Memory`.
fn read_segment(alloc: Global, segment: &Segment) -> Result<MemTableRecoverContext> {
    let mut context = MemTableRecoverContext::new(alloc)?;
    replay_segment(&mut context, segment)?;
    Ok(context)
}

/// Merges the two contexts of each half, and then the two results. This is the work that is timed. The halves
/// are neighbors, and all batches are of `queue`.
///
/// # Errors
///
/// Those of [`MemTableRecoverContext::merge`].
fn merge_by_halves(older: Half, newer: Half, queue: LogQueue) -> Result<()> {
    let mut older = merge_half(older, queue)?;
    older.merge(merge_half(newer, queue)?, queue)
}

/// Merges the newer context of `half` into the older one, and returns the result.
///
/// # Errors
///
/// Those of [`MemTableRecoverContext::merge`].
fn merge_half(half: Half, queue: LogQueue) -> Result<MemTableRecoverContext> {
    let (mut older, newer) = half;
    older.merge(newer, queue)?;
    Ok(older)
}
