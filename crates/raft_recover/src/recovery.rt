//! Recovers the tables of all regions from the bytes of log files.

ghost use Rattle.std.specs.Prelude.{◌≡◌, ◌≢◌, ◌↔◌, ℕ, ◌⊎◌, ◌^◌, ◌<◌, ◌≤◌, length, IfOk, IfErr, OnOk, List, map};
ghost use Rattle.raft_recover.specs.Common.{Keeps, IsSync, IsInvalidArgument, Append, Rewrite, Event, Apart, IsOneReading, IsSmall, Sound, Tables, AreRewrittenFrom, HaveSameRecords, HasRead, HasReadExactly, IsReplayed, SegmentsHold};
ghost use Rattle.raft_recover.specs.Common.{CannotBeRead, MayReplay, parts_within, IsNothing, StopsAmong, bytes_of_segments, FilesCannotBeRead, IsPrintFailure, PrintsRecovered, AreBothRecovered, IsRecovered, MayReplayBoth};
ghost use Rattle.raft_recover.specs.Common.{IsReplayedOrStopped, file_shown};

use crate::files::file_segments;
use crate::recovered::print_recovered;
use crate::shares::{equal_shares, total_bytes};
use raft_accessor::MemTableAccessor;
use raft_base::{Error, FileSeq, LogQueue, Result, Version};
use raft_contexts::{MemTableRecoverContext, MemTableRecoverContextFactory};
use raft_replay::{OpenGate, Segment, check_arguments, replay_accepted, replay_segment};
use std::alloc::Global;
use std::io::Write;
use std::thread::{Threads, join};

/// About how many bytes a share has at least. For fewer, a further piece costs more than its worker saves.
const LEAST_SHARE: usize = 1 << 20;

/// Recovers the tables of all regions, with their cleaned regions and live counts: those that reading the
/// batches of all segments of `queue` in order gives. 1 to 256 workers read them. However the batches are
/// divided into segments, it makes at most one share for each worker, all of about the same number of bytes;
/// each worker takes the next share that is left (see [`equal_shares`]).
///
/// What is proved of it: for every list of segments of the queue, for every number of workers and whatever
/// turns they take, an `Ok` has what one reading of all batches in order gives, and an `Err` other than
/// `Memory` comes only if that reading is refused too. Premises: the batches name fewer than 2^63 entries and
/// changes of keys together, deletions too; in the rewrite queue, if the batches of a group overlap with
/// others, they name no region that those name; the call returns.
///
/// # Errors
///
/// `InvalidArgument` for another number of workers, for a part of another queue and for 2^62 segments or
/// more; then what a reading returns: `Corruption`, `Codec`, or `Io` for an item that ends before its type,
/// if a part isn't a sequence of readable batches or the batches in order can't be read; `Memory`.
///
/// Whatever the number of workers and their turns, the error is that of the first batch in order that is
/// refused, and its text begins with the place of that batch, as
/// [`replay_segment`](raft_replay::replay_segment) says. If workers fail for another reason than lack of
/// memory, in reading or in a merge, one thread reads the segments once more, up to that batch.
pub fn recover<R: Threads + Sync>(
    rt: &R,
    alloc: Global,
    segments: &[Segment],
    queue: LogQueue,
    workers: usize,
) -> Result<MemTableAccessor>
    ensures ok { IfOk result (IsRecovered queue (SegmentsHold segments.entry.now)) }
    ensures accepted { OnOk result (MayReplay queue workers segments.entry.now) }
    ensures refused { MayReplay queue workers segments.entry.now
        → IfErr result (λ e. e ≢ Error.Memory → CannotBeRead segments.entry.now) }
    ensures place { MayReplay queue workers segments.entry.now
        → bytes_of_segments segments.entry.now < 2 ^ 63
        → IfErr result (λ e. e ≢ Error.Memory
        → StopsAmong IsNothing Sound (parts_within segments.entry.now) e) }
    ensures fault { ¬ (MayReplay queue workers segments.entry.now)
        → IfErr result (λ e. e ≢ Error.Memory → IsInvalidArgument e) }
{
    check_arguments(alloc, segments, queue, workers)?;
    let context = replay_in_shares(rt, alloc, segments, queue, workers)?;
    context.finish()
}

/// Recovers the tables of both queues: those of the append queue put over those of the rewrite queue, as
/// [`MemTableRecoverContext::merge_append_context`] does it. The segments of each queue are read as by
/// [`recover`]. With two workers or more both queues are read at the same time, and the workers are divided
/// between them by bytes.
///
/// What is proved of it: an `Ok` has what one reading of each queue's batches in order gives, the one put
/// over the other, and an `Err` other than `Memory` comes only if one of the two readings is refused. If the
/// append queue still has all its batches, and each rewritten record is one that it had, the records are
/// those that the append queue gives alone (clause `whole`). Premises: those of [`recover`] for each queue.
///
/// # Errors
///
/// `InvalidArgument` for another number of workers, for a part of another queue and for 2^62 segments of a
/// queue or more; then those of [`recover`] for either queue, and `Full` if both together have more than 2^64
/// - 1 records.
pub fn recover_both<R: Threads + Sync>(
    rt: &R,
    alloc: Global,
    rewrite: &[Segment],
    append: &[Segment],
    workers: usize,
) -> Result<MemTableAccessor>
    ensures ok { IfOk result (AreBothRecovered (SegmentsHold rewrite.entry.now)
        (SegmentsHold append.entry.now)) }
    ensures accepted { OnOk result (MayReplayBoth workers rewrite.entry.now append.entry.now) }
    ensures refused { MayReplayBoth workers rewrite.entry.now append.entry.now
        → IfErr result (λ e. e ≢ Error.Memory
        → CannotBeRead rewrite.entry.now ⊎ CannotBeRead append.entry.now) }
    ensures place { MayReplayBoth workers rewrite.entry.now append.entry.now
        → bytes_of_segments rewrite.entry.now < 2 ^ 63 → bytes_of_segments append.entry.now < 2 ^ 63
        → IfErr result (λ e. e ≢ Error.Memory
        → StopsAmong IsNothing Sound (parts_within rewrite.entry.now) e
        ⊎ StopsAmong IsNothing Sound (parts_within append.entry.now) e) }
    ensures fault { ¬ (MayReplayBoth workers rewrite.entry.now append.entry.now)
        → IfErr result (λ e. e ≢ Error.Memory → IsInvalidArgument e) }
    ensures whole { (h k : List Event) (tables : Tables) (cleaned : List ℕ)
        → SegmentsHold rewrite.entry.now h → SegmentsHold append.entry.now k → IsSmall h → IsSmall k
        → Apart h → AreRewrittenFrom k h → IsOneReading Append k tables cleaned
        → IfOk result (λ accessor. HaveSameRecords accessor.tables tables
        × (accessor.cleaned ≡ cleaned)) }
{
    let (mut both, appended) = replay_both(rt, alloc, rewrite, append, workers)?;
    both.merge_append_context(appended)?;
    both.finish()
}

/// Reads the segments of both queues as [`recover_both`] does. Returns the context of the rewrite queue and
/// that of the append queue, which isn't put over the other yet.
///
/// # Errors
///
/// Those of [`recover_both`] other than `Full`.
#[doc(hidden)]
pub fn replay_both<R: Threads + Sync>(
    rt: &R,
    alloc: Global,
    rewrite: &[Segment],
    append: &[Segment],
    workers: usize,
) -> Result<(MemTableRecoverContext, MemTableRecoverContext)>
    ensures rewritten { IfOk result
        (λ both. IsReplayed HasRead HasReadExactly rewrite.entry.now both.0) }
    ensures appended { IfOk result
        (λ both. IsReplayed HasRead HasReadExactly append.entry.now both.1) }
    ensures accepted { OnOk result (MayReplayBoth workers rewrite.entry.now append.entry.now) }
    ensures place { MayReplayBoth workers rewrite.entry.now append.entry.now
        → IfErr result (λ e. e ≢ Error.Memory
        → StopsAmong IsNothing Sound (parts_within rewrite.entry.now) e
        ⊎ StopsAmong IsNothing Sound (parts_within append.entry.now) e) }
    ensures fault { ¬ (MayReplayBoth workers rewrite.entry.now append.entry.now)
        → IfErr result (λ e. e ≢ Error.Memory → IsInvalidArgument e) }
{
    check_arguments(alloc, rewrite, LogQueue::Rewrite, workers)?;
    check_arguments(alloc, append, LogQueue::Append, workers)?;
    replay_both_queues(rt, alloc, rewrite, append, workers)
}

/// Reads the segments `rewrite` and `append` of both queues: at the same time with two `workers` or more, one
/// queue after the other with one. Returns the context of the rewrite queue and that of the append queue.
///
/// # Errors
///
/// Those of [`recover`] for either queue. If both are refused, the error is that of the rewrite queue.
fn replay_both_queues<R: Threads + Sync>(
    rt: &R,
    alloc: Global,
    rewrite: &[Segment],
    append: &[Segment],
    workers: usize,
) -> Result<(MemTableRecoverContext, MemTableRecoverContext)>
    requires { MayReplayBoth workers rewrite.now append.now }
    ensures rewritten { IfOk result
        (λ both. IsReplayed HasRead HasReadExactly rewrite.entry.now both.0) }
    ensures appended { IfOk result
        (λ both. IsReplayed HasRead HasReadExactly append.entry.now both.1) }
    ensures place { IfErr result (λ e. e ≢ Error.Memory
        → StopsAmong IsNothing Sound (parts_within rewrite.entry.now) e
        ⊎ StopsAmong IsNothing Sound (parts_within append.entry.now) e) }
{
    if workers == 1 {
        let both = replay_in_shares(rt, alloc, rewrite, LogQueue::Rewrite, workers)?;
        let appended = replay_in_shares(rt, alloc, append, LogQueue::Append, workers)?;
        return Ok((both, appended));
    }
    let rewriters = part_of_workers(workers, total_bytes(rewrite), total_bytes(append));
    let appenders = workers - rewriters;
    let read_rewrite = || -> Result<MemTableRecoverContext>
        requires { IsSync R.row × MayReplay Rewrite rewriters rewrite.now }
        ensures { IsReplayedOrStopped rewrite.entry.now result }
    { replay_in_shares(rt, alloc, rewrite, LogQueue::Rewrite, rewriters) };
    let read_append = || -> Result<MemTableRecoverContext>
        requires { IsSync R.row × MayReplay Append appenders append.now }
        ensures { IsReplayedOrStopped append.entry.now result }
    { replay_in_shares(rt, alloc, append, LogQueue::Append, appenders) };
    let (rewritten, appended) = join(rt, read_rewrite, read_append);
    let both = rewritten?;
    let appended = appended?;
    Ok((both, appended))
}

/// Returns how many of `workers` workers are to read the first of two queues, which have `first` and `second`
/// bytes: as many as its part of all bytes, but at least one, and not all of them. There must be two workers
/// or more.
#[doc(hidden)]
pub fn part_of_workers(workers: usize, first: usize, second: usize) -> usize
    requires { 2 ≤ workers }
    ensures { (0 < result) × (result < workers) }
{
    let each = (first.saturating_add(second) / workers).max(1);
    (first / each).clamp(1, workers - 1)
}

/// Reads `segments` of `queue` by `workers` workers, as shares of about one length, and returns the context.
///
/// # Errors
///
/// Those of [`recover`].
fn replay_in_shares<R: Threads + Sync>(
    rt: &R,
    alloc: Global,
    segments: &[Segment],
    queue: LogQueue,
    workers: usize,
) -> Result<MemTableRecoverContext>
    requires { MayReplay queue workers segments.now }
    ensures { IsReplayedOrStopped segments.entry.now result }
{
    let shares = equal_shares(alloc, segments, workers, LEAST_SHARE)?;
    replay_given_shares(rt, alloc, segments, shares.as_slice(), queue, workers)
}

/// Reads the segments of a queue by `workers` workers, divided into `shares`, and returns the context.
/// `shares` have the same batches as `segments`. If they are refused for another reason than lack of memory,
/// `segments` are read once more, in order, so that the error is that of the first batch in order that is
/// refused.
///
/// # Errors
///
/// Those of [`recover`].
fn replay_given_shares<R: Threads + Sync>(
    rt: &R,
    alloc: Global,
    segments: &[Segment],
    shares: &[Segment],
    queue: LogQueue,
    workers: usize,
) -> Result<MemTableRecoverContext>
    requires same { (h : List Event) → SegmentsHold segments.now h ↔ SegmentsHold shares.now h }
    requires accepted { MayReplay queue workers shares.now }
    ensures { IsReplayedOrStopped segments.entry.now result }
{
    let factory = MemTableRecoverContextFactory::new();
    match replay_accepted(rt, alloc, &factory, shares, queue, workers, &OpenGate) {
        Ok(context) => Ok(context),
        Err(Error::Memory) => Err(Error::Memory),
        Err(_) => replay_one_by_one(alloc, segments),
    }
}

/// Reads `segments` one after another on the caller's thread, and returns the context.
///
/// # Errors
///
/// Those of [`replay_segment`](raft_replay::replay_segment) at the first batch that is refused.
fn replay_one_by_one(alloc: Global, segments: &[Segment]) -> Result<MemTableRecoverContext>
    ensures { IsReplayedOrStopped segments.entry.now result }
{
    let mut context = MemTableRecoverContext::new(alloc)?;
    for segment in segments {
        replay_segment(&mut context, segment)?;
    }
    Ok(context)
}

/// Recovers the tables of all regions, with their cleaned regions and live counts, as [`recover`] does, but
/// doesn't divide the segments anew: each worker takes the next segment that is left.
///
/// # Errors
///
/// Those of [`recover`].
pub fn recover_segments<R: Threads + Sync>(
    rt: &R,
    alloc: Global,
    segments: &[Segment],
    queue: LogQueue,
    workers: usize,
) -> Result<MemTableAccessor>
    ensures ok { IfOk result (IsRecovered queue (SegmentsHold segments.entry.now)) }
    ensures accepted { OnOk result (MayReplay queue workers segments.entry.now) }
    ensures refused { MayReplay queue workers segments.entry.now
        → IfErr result (λ e. e ≢ Error.Memory → CannotBeRead segments.entry.now) }
    ensures place { MayReplay queue workers segments.entry.now
        → bytes_of_segments segments.entry.now < 2 ^ 63
        → IfErr result (λ e. e ≢ Error.Memory
        → StopsAmong IsNothing Sound (parts_within segments.entry.now) e) }
    ensures fault { ¬ (MayReplay queue workers segments.entry.now)
        → IfErr result (λ e. e ≢ Error.Memory → IsInvalidArgument e) }
{
    check_arguments(alloc, segments, queue, workers)?;
    let context = replay_given_shares(rt, alloc, segments, segments, queue, workers)?;
    context.finish()
}

/// Recovers the tables of `files` of `queue`, which have the numbers and the bytes that are given, and prints
/// them. This is what `raftlog recover` does once it has read the files. The lines are those of
/// [`print_recovered`].
///
/// # Errors
///
/// Those of [`recover`]; nothing has been written then. `Io` if the writer fails; a part of the lines, from
/// the first byte on, may have been written then.
pub fn recover_bytes<R: Threads + Sync, W: Write>(
    rt: &R,
    alloc: Global,
    queue: LogQueue,
    version: Version,
    workers: usize,
    files: Vec<(FileSeq, Vec<u8>)>,
    writer: &mut W,
) -> Result<()>
    ensures ok { OnOk result (PrintsRecovered queue version (map file_shown files.items)
        (W.contents writer.old) (W.contents writer.new)) }
    ensures accepted { OnOk result
        ((0 < workers) × (workers ≤ 256) × (length files.items < 2 ^ 62)) }
    ensures silent { IfErr result (λ e. Keeps (W.contents writer.old) (W.contents writer.new)
        ⊎ IsPrintFailure queue version (map file_shown files.items) (W.contents writer.old)
        (W.contents writer.new) e) }
    ensures refused { (0 < workers) × (workers ≤ 256) × (length files.items < 2 ^ 62)
        → IfErr result (λ e. e ≢ Error.Memory
        → FilesCannotBeRead queue version (map file_shown files.items)
        ⊎ IsPrintFailure queue version (map file_shown files.items) (W.contents writer.old)
        (W.contents writer.new) e) }
    ensures fault { ((0 < workers) × (workers ≤ 256) × (length files.items < 2 ^ 62) → ⊥)
        → IfErr result (λ e. e ≢ Error.Memory → IsInvalidArgument e) }
{
    let segments = file_segments(queue, version, files)?;
    let accessor = recover(rt, alloc, segments.as_slice(), queue, workers)?;
    print_recovered(alloc, &accessor, writer)
}
