//! Reading found files in pieces in the order in which refusals have to be reported: the last file of each queue is read twice.

ghost use Rattle.std.specs.Prelude.{◌≢◌, ◌⊎◌, ◌<◌, ◌≤◌, ◌^◌, List, [], length, IfErr, IfOk, OnErr, OnOk};
ghost use Rattle.std.specs.Thread.{IsSync};
ghost use Rattle.raft_base.specs.Errors.{IsInvalidArgument};
ghost use Rattle.raft_base.specs.declared.pipe_log.LogQueue.TheVariants.{Append, Rewrite};
ghost use Rattle.raft_contexts.specs.RecoverContext.{HasRead, HasReadExactly};
ghost use Rattle.raft_files.specs.Asks.{NumberedBytes};
ghost use Rattle.raft_reading.specs.QueueRead.{IsQueueReplayed, IsQueueStop};
ghost use Rattle.raft_replay.specs.Stops.{IsStoodFor};
ghost use Rattle.raft_engine.specs.FoundFiles.{IsFoundFault};
ghost use Rattle.raft_engine.specs.ReadFound.{AreReadFound};
ghost use Rattle.raft_engine.specs.ReadQueues.{HaveBothRead, HaveBothReadExactly};
ghost use Rattle.raft_opening.specs.SizedFiles.{AreBothSized, AreFewSized, AreSized, IsReadRefusal, IsSizedQueue};
ghost use Rattle.raft_engine.specs.Unopened.{AreBothAccepted, AreUnrecoveredAs, IsOpeningRefusal};

use crate::sized_files::{SizedQueue, check_few_bytes};
use raft_base::{Error, LogQueue, Result, Version};
use raft_contexts::{MemTableRecoverContext, MemTableRecoverContextFactory};
use raft_engine::RecoveryMode;
use raft_engine::both::{Both, BothFactory};
use raft_engine::group_rows::{GroupRows, GroupRowsFactory, OUT_OF_ROW};
use raft_engine::reading::{Reading, Ready};
use raft_reading::{FileSize, ReadFiles, replay_files};
use raft_recover::files_hold_few_records;
use raft_recover::recovery::part_of_workers;
use raft_replay::check_arguments;
use std::alloc::Global;
use std::thread::{Threads, join};

/// The least number of bytes, about, that the rewrite queue has if both queues are read at the same time.
pub const LEAST_SHARE: usize = 1 << 20;

/// The number of a queue's files from which on they are refused.
const FILE_LIMIT: usize = 1 << 62;

/// Reads found files piece by piece, by `workers` threads, and recovers the tables of those that are there once what is missing
/// was asked. The last file of each queue is read first, up to the first byte at which no batch can be read, and `mode` has to
/// accept what stands there; then all files are replayed, each up to there. `append` and `rewrite` are the numbers and lengths of
/// each queue's files, oldest first.
///
/// # Errors
///
/// `Io`, whose text begins with the queue, the file and the offset, if a read fails, or gives another number of bytes than it was
/// asked for; those of [`SizedQueue::of`], of [`check_few_bytes`], of [`check_counts`] and of `replay_files`; `InvalidArgument`
/// if an atomic group of the rewrite files doesn't stand in a row, in one file; `Full` if what has to be told at once has 2^56
/// bytes or more; `Memory`.
pub fn read_sized<R: Threads + Sync, S: ReadFiles>(
    rt: &R,
    alloc: Global,
    source: &S,
    mode: RecoveryMode,
    version: Version,
    append: &[FileSize],
    rewrite: &[FileSize],
    workers: usize,
) -> Result<Reading>
    ensures ok { (append_files rewrite_files : List NumberedBytes)
        → AreBothSized (S.gives source.now) append.now rewrite.now append_files rewrite_files
        → IfOk result (AreReadFound version append_files rewrite_files) }
    ensures accepted { (append_files rewrite_files : List NumberedBytes)
        → AreBothSized (S.gives source.now) append.now rewrite.now append_files rewrite_files
        → OnOk result (AreBothAccepted mode version append_files rewrite_files) }
    ensures fault { (append_files rewrite_files : List NumberedBytes)
        → AreBothSized (S.gives source.now) append.now rewrite.now append_files rewrite_files
        → IfErr result (λ e. IsReadRefusal (S.gives source.now) (S.may_fail source.now) e
        ⊎ IsOpeningRefusal (AreUnrecoveredAs version workers) mode version append_files rewrite_files e) }
{
    files_hold_few_records();
    let (append, rewrite) = check_both_queues(
        rt, alloc, source, mode, version, append, rewrite, workers,
    )?;
    let (append_left, rewrite_left) = (append.left.as_slice(), rewrite.left.as_slice());
    check_few_bytes(append_left)?;
    check_few_bytes(rewrite_left)?;
    check_counts(alloc, append_left, rewrite_left, workers)?;
    let (rewritten, appended) = replay_both(
        rt,
        alloc,
        source,
        rewrite_left,
        append_left,
        version,
        workers,
    )?;
    let Both { first, second } = rewritten;
    if !second.stand() {
        return Err(Error::invalid_argument(alloc, OUT_OF_ROW));
    }
    let ready = Ready {
        append: append.ready,
        rewrite: rewrite.ready,
    };
    ready.with_contexts(alloc, appended, first)
}

/// Checks that the found files of both queues may be opened in `mode`, as [`SizedQueue::of`] does; at the same time, if there are
/// two workers or more. Returns the append queue's first.
///
/// # Errors
///
/// Those of [`SizedQueue::of`]; that of the append queue first.
fn check_both_queues<R: Threads + Sync, S: ReadFiles>(
    rt: &R,
    alloc: Global,
    source: &S,
    mode: RecoveryMode,
    version: Version,
    append: &[FileSize],
    rewrite: &[FileSize],
    workers: usize,
) -> Result<(SizedQueue, SizedQueue)>
    ensures append { (files : List NumberedBytes) → AreSized (S.gives source.now) Append append.now files
        → IfOk result (λ both. IsSizedQueue mode Append version files both.0) }
    ensures rewrite { (files : List NumberedBytes) → AreSized (S.gives source.now) Rewrite rewrite.now files
        → IfOk result (λ both. IsSizedQueue mode Rewrite version files both.1) }
    ensures fault { (append_files rewrite_files : List NumberedBytes)
        → AreBothSized (S.gives source.now) append.now rewrite.now append_files rewrite_files
        → IfErr result (λ e. e ≢ Error.Memory → (IsFoundFault mode Append version append_files e
        ⊎ IsFoundFault mode Rewrite version rewrite_files e) ⊎ IsReadRefusal (S.gives source.now) (S.may_fail source.now) e) }
{
    if workers < 2 {
        let append = SizedQueue::of(alloc, source, mode, LogQueue::Append, version, append)?;
        let rewrite = SizedQueue::of(alloc, source, mode, LogQueue::Rewrite, version, rewrite)?;
        return Ok((append, rewrite));
    }
    let size_append = || -> Result<SizedQueue>
        requires { IsSync S.row }
        ensures ok { (files : List NumberedBytes) → AreSized (S.gives source.entry.now) Append append.entry.now files
            → IfOk result (IsSizedQueue mode Append version files) }
        ensures fault { (files : List NumberedBytes) → AreSized (S.gives source.entry.now) Append append.entry.now files
            → IfErr result (λ e. e ≢ Error.Memory → IsFoundFault mode Append version files e
            ⊎ IsReadRefusal (S.gives source.entry.now) (S.may_fail source.entry.now) e) }
    { SizedQueue::of(alloc, source, mode, LogQueue::Append, version, append) };
    let size_rewrite = || -> Result<SizedQueue>
        requires { IsSync S.row }
        ensures ok { (files : List NumberedBytes) → AreSized (S.gives source.entry.now) Rewrite rewrite.entry.now files
            → IfOk result (IsSizedQueue mode Rewrite version files) }
        ensures fault { (files : List NumberedBytes) → AreSized (S.gives source.entry.now) Rewrite rewrite.entry.now files
            → IfErr result (λ e. e ≢ Error.Memory → IsFoundFault mode Rewrite version files e
            ⊎ IsReadRefusal (S.gives source.entry.now) (S.may_fail source.entry.now) e) }
    { SizedQueue::of(alloc, source, mode, LogQueue::Rewrite, version, rewrite) };
    let (append, rewrite) = join(rt, size_append, size_rewrite);
    let append = append?;
    let rewrite = rewrite?;
    Ok((append, rewrite))
}

/// Checks that there are 1 to 256 workers, and fewer than 2^62 files of each queue.
///
/// # Errors
///
/// `InvalidArgument` if not; `Memory`.
pub fn check_counts(
    alloc: Global,
    append: &[FileSize],
    rewrite: &[FileSize],
    workers: usize,
) -> Result<()>
    ensures ok { OnOk result (AreFewSized workers append.now rewrite.now) }
    ensures refused { OnErr result (¬ (AreFewSized workers append.now rewrite.now)) }
    ensures fault { IfErr result (λ e. e ≢ Error.Memory → IsInvalidArgument e) }
{
    check_arguments(alloc, &[], LogQueue::Append, workers)?;
    if append.len() >= FILE_LIMIT || rewrite.len() >= FILE_LIMIT {
        return Err(Error::invalid_argument(alloc, "2^62 files or more"));
    }
    Ok(())
}

/// Replays the files of both queues. If those of the rewrite queue are short, or there is one worker, they are read one after the
/// other, each queue by all workers; else at the same time, by a part of the workers each. Returns the rewrite queue's machine
/// first.
///
/// # Errors
///
/// Those of [`replay_rewrite`] and of [`replay_append`]; that of the rewrite queue first.
fn replay_both<R: Threads + Sync, S: ReadFiles>(
    rt: &R,
    alloc: Global,
    source: &S,
    rewrite: &[FileSize],
    append: &[FileSize],
    version: Version,
    workers: usize,
) -> Result<
    (
        Both<MemTableRecoverContext, GroupRows>,
        MemTableRecoverContext,
    ),
>
    requires { (0 < workers) × (workers ≤ 256) }
    ensures rewritten { IfOk result (λ both. IsQueueReplayed (S.gives source.now) Rewrite version rewrite.now HaveBothRead
        HaveBothReadExactly both.0) }
    ensures appended { IfOk result (λ both. IsQueueReplayed (S.gives source.now) Append version append.now HasRead
        HasReadExactly both.1) }
    ensures fault { IfErr result (λ e. e ≢ Error.Memory
        → IsQueueStop (S.gives source.now) (S.may_fail source.now) Rewrite version rewrite.now (IsStoodFor HaveBothRead) e
        ⊎ IsQueueStop (S.gives source.now) (S.may_fail source.now) Append version append.now (IsStoodFor HasRead) e) }
{
    let rewrite_bytes = sum_file_bytes(rewrite);
    if workers == 1 || rewrite_bytes < LEAST_SHARE {
        let rewritten = replay_rewrite(rt, alloc, source, rewrite, version, workers)?;
        let appended = replay_append(rt, alloc, source, append, version, workers)?;
        return Ok((rewritten, appended));
    }
    let rewriters = part_of_workers(workers, rewrite_bytes, sum_file_bytes(append));
    let appenders = workers - rewriters;
    let read_first = || -> Result<Both<MemTableRecoverContext, GroupRows>>
        requires { IsSync R.row × IsSync S.row × (0 < rewriters) × (rewriters ≤ 256) }
        ensures ok { IfOk result (IsQueueReplayed (S.gives source.entry.now) Rewrite version rewrite.entry.now HaveBothRead
            HaveBothReadExactly) }
        ensures fault { IfErr result (λ e. e ≢ Error.Memory → IsQueueStop (S.gives source.entry.now) (S.may_fail source.entry.now)
            Rewrite version rewrite.entry.now (IsStoodFor HaveBothRead) e) }
    { replay_rewrite(rt, alloc, source, rewrite, version, rewriters) };
    let read_second = || -> Result<MemTableRecoverContext>
        requires { IsSync R.row × IsSync S.row × (0 < appenders) × (appenders ≤ 256) }
        ensures ok { IfOk result (IsQueueReplayed (S.gives source.entry.now) Append version append.entry.now HasRead
            HasReadExactly) }
        ensures fault { IfErr result (λ e. e ≢ Error.Memory → IsQueueStop (S.gives source.entry.now) (S.may_fail source.entry.now)
            Append version append.entry.now (IsStoodFor HasRead) e) }
    { replay_append(rt, alloc, source, append, version, appenders) };
    let (rewritten, appended) = join(rt, read_first, read_second);
    let rewritten = rewritten?;
    let appended = appended?;
    Ok((rewritten, appended))
}

/// Replays the files of the rewrite queue by `workers` threads, and gathers whether its atomic groups stand in rows.
///
/// # Errors
///
/// Those of `replay_files`.
fn replay_rewrite<R: Threads + Sync, S: ReadFiles>(
    rt: &R,
    alloc: Global,
    source: &S,
    files: &[FileSize],
    version: Version,
    workers: usize,
) -> Result<Both<MemTableRecoverContext, GroupRows>>
    requires { (0 < workers) × (workers ≤ 256) }
    ensures ok { IfOk result (IsQueueReplayed (S.gives source.now) Rewrite version files.now HaveBothRead HaveBothReadExactly) }
    ensures fault { IfErr result (λ e. e ≢ Error.Memory → IsQueueStop (S.gives source.now) (S.may_fail source.now)
        Rewrite version files.now (IsStoodFor HaveBothRead) e) }
{
    let factory = BothFactory {
        first: MemTableRecoverContextFactory::new(),
        second: GroupRowsFactory,
    };
    replay_files(
        rt,
        alloc,
        &factory,
        source,
        files,
        LogQueue::Rewrite,
        version,
        workers,
    )
}

/// Replays the files of the append queue by `workers` threads.
///
/// # Errors
///
/// Those of `replay_files`.
fn replay_append<R: Threads + Sync, S: ReadFiles>(
    rt: &R,
    alloc: Global,
    source: &S,
    files: &[FileSize],
    version: Version,
    workers: usize,
) -> Result<MemTableRecoverContext>
    requires { (0 < workers) × (workers ≤ 256) }
    ensures ok { IfOk result (IsQueueReplayed (S.gives source.now) Append version files.now HasRead HasReadExactly) }
    ensures fault { IfErr result (λ e. e ≢ Error.Memory → IsQueueStop (S.gives source.now) (S.may_fail source.now)
        Append version files.now (IsStoodFor HasRead) e) }
{
    let factory = MemTableRecoverContextFactory::new();
    replay_files(
        rt,
        alloc,
        &factory,
        source,
        files,
        LogQueue::Append,
        version,
        workers,
    )
}

/// Returns the length of all files together in bytes, at most `usize::MAX`.
pub fn sum_file_bytes(files: &[FileSize]) -> usize {
    let mut bytes = 0usize;
    for file in files {
        bytes = bytes.saturating_add(file.len as usize);
    }
    bytes
}
