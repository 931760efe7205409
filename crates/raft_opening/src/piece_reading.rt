//! Reading found files in pieces, each byte once.

ghost use Rattle.std.specs.Prelude.{◌<◌, ◌≤◌, IfErr, IfOk};
ghost use Rattle.std.specs.Thread.{IsSync};
ghost use Rattle.raft_base.specs.declared.pipe_log.LogQueue.TheVariants.{Append, Rewrite};
ghost use Rattle.raft_contexts.specs.RecoverContext.{HasRead, HasReadExactly};
ghost use Rattle.raft_engine.specs.ReadQueues.{HaveBothRead, HaveBothReadExactly};
ghost use Rattle.raft_opening.specs.ReadOnce.{AreUnreadAs, IsQueueRead, IsReadingOf};

use crate::queue_read::{QueueRead, read_queue};
use crate::sized_files::check_few_bytes;
use crate::sized_reading::{LEAST_SHARE, check_counts, read_sized, sum_file_bytes};
use raft_base::{Error, LogQueue, Result, Version};
use raft_contexts::{MemTableRecoverContext, MemTableRecoverContextFactory};
use raft_engine::RecoveryMode;
use raft_engine::both::{Both, BothFactory};
use raft_engine::group_rows::{GroupRows, GroupRowsFactory, OUT_OF_ROW};
use raft_engine::reading::{ReadFiles as FilesRead, Ready};
use raft_reading::{FileSize, ReadFiles};
use raft_recover::files_hold_few_records;
use raft_recover::recovery::part_of_workers;
use std::alloc::Global;
use std::thread::{Threads, join};

/// The text of the error for files that one reading refused, and the next one didn't.
const CHANGED: &str = "the files changed while they were read, or a read failed";

/// Reads found files piece by piece through `source`, each byte once, by `workers` threads, and recovers the tables of those that
/// are there once what is missing was asked. Returns them with what is missing, and with the batches of the last append file
/// whose entries are damaged. `append` and `rewrite` are the numbers and lengths of each queue's files, oldest first.
///
/// A piece is let go once its batches are replayed. So besides the tables no more is in memory than a piece of 4 MiB, or a longer
/// batch, for each worker, and what stands in a queue's last file after its readable prefix. What is promised is promised of the
/// bytes that the reads gave.
///
/// # Errors
///
/// Those of [`Engine::open_telling`](raft_engine::Engine::open_telling) for files that are refused; `Io`, whose text begins with
/// the queue, the file and the offset, if a read fails, or gives another number of bytes than it was asked for; `Memory`. Files
/// that are refused are read once more, to name what comes first. If they aren't refused then, the error is `Corruption`: they
/// changed meanwhile, or a read failed once.
pub fn read_in_pieces<R: Threads + Sync, S: ReadFiles>(
    rt: &R,
    alloc: Global,
    source: &S,
    mode: RecoveryMode,
    version: Version,
    append: &[FileSize],
    rewrite: &[FileSize],
    workers: usize,
) -> Result<FilesRead>
    ensures ok { IfOk result (IsReadingOf (S.gives source.now) mode version append.now rewrite.now) }
    ensures err { IfErr result (AreUnreadAs (S.gives source.now) (S.may_fail source.now) mode version workers append.now
        rewrite.now) }
{
    match read_once(rt, alloc, source, mode, version, append, rewrite, workers) {
        Ok(read) => Ok(read),
        Err(Error::Memory) => Err(Error::Memory),
        Err(_) => Err(read_again_for_error(
            rt, alloc, source, mode, version, append, rewrite, workers,
        )),
    }
}

/// Returns the error for files that a reading has refused: they are read once more, and the error is that of what comes first; or
/// `Corruption`, if they aren't refused this time.
fn read_again_for_error<R: Threads + Sync, S: ReadFiles>(
    rt: &R,
    alloc: Global,
    source: &S,
    mode: RecoveryMode,
    version: Version,
    append: &[FileSize],
    rewrite: &[FileSize],
    workers: usize,
) -> Error
    ensures { AreUnreadAs (S.gives source.now) (S.may_fail source.now) mode version workers append.now rewrite.now result }
{
    match read_sized(rt, alloc, source, mode, version, append, rewrite, workers) {
        Ok(_) => Error::corruption(alloc, CHANGED),
        Err(error) => error,
    }
}

/// Reads found files as [`read_in_pieces`] does, but if it refuses them the error needn't be that of what comes first.
///
/// # Errors
///
/// `Memory`; any other if the files are refused.
fn read_once<R: Threads + Sync, S: ReadFiles>(
    rt: &R,
    alloc: Global,
    source: &S,
    mode: RecoveryMode,
    version: Version,
    append: &[FileSize],
    rewrite: &[FileSize],
    workers: usize,
) -> Result<FilesRead>
    ensures { IfOk result (IsReadingOf (S.gives source.now) mode version append.now rewrite.now) }
{
    files_hold_few_records();
    check_counts(alloc, append, rewrite, workers)?;
    let read = read_queues(rt, alloc, source, mode, version, rewrite, append, workers)?;
    let (rewrite, append) = read;
    let QueueRead {
        machine: rewritten,
        sized: rewrite,
        ..
    } = rewrite;
    let QueueRead {
        machine: appended,
        sized: append,
        damaged,
    } = append;
    let (append_left, rewrite_left) = (append.left.as_slice(), rewrite.left.as_slice());
    check_few_bytes(append_left)?;
    check_few_bytes(rewrite_left)?;
    let Both { first, second } = rewritten;
    if !second.stand() {
        return Err(Error::invalid_argument(alloc, OUT_OF_ROW));
    }
    let ready = Ready {
        append: append.ready,
        rewrite: rewrite.ready,
    };
    let reading = ready.with_contexts(alloc, appended, first)?;
    Ok(FilesRead { reading, damaged })
}

/// Reads the files of both queues. If those of the rewrite queue are short, or there is one worker, they are read one after the
/// other, each queue by all workers; else at the same time, by a part of the workers each. Returns the rewrite queue's first.
///
/// # Errors
///
/// Those of [`read_queue`].
fn read_queues<R: Threads + Sync, S: ReadFiles>(
    rt: &R,
    alloc: Global,
    source: &S,
    mode: RecoveryMode,
    version: Version,
    rewrite: &[FileSize],
    append: &[FileSize],
    workers: usize,
) -> Result<
    (
        QueueRead<Both<MemTableRecoverContext, GroupRows>>,
        QueueRead<MemTableRecoverContext>,
    ),
>
    requires { (0 < workers) × (workers ≤ 256) }
    ensures rewritten { IfOk result (λ both. IsQueueRead (S.gives source.now) mode Rewrite version rewrite.now HaveBothRead
        HaveBothReadExactly both.0) }
    ensures appended { IfOk result (λ both. IsQueueRead (S.gives source.now) mode Append version append.now HasRead
        HasReadExactly both.1) }
{
    let rewrite_bytes = sum_file_bytes(rewrite);
    if workers == 1 || rewrite_bytes < LEAST_SHARE {
        let rewritten = read_rewrite(rt, alloc, source, mode, version, rewrite, workers)?;
        let appended = read_append(rt, alloc, source, mode, version, append, workers)?;
        return Ok((rewritten, appended));
    }
    let rewriters = part_of_workers(workers, rewrite_bytes, sum_file_bytes(append));
    let appenders = workers - rewriters;
    let read_first = || -> Result<QueueRead<Both<MemTableRecoverContext, GroupRows>>>
        requires { IsSync R.row × IsSync S.row × (0 < rewriters) × (rewriters ≤ 256) }
        ensures { IfOk result (IsQueueRead (S.gives source.entry.now) mode Rewrite version rewrite.entry.now HaveBothRead
            HaveBothReadExactly) }
    { read_rewrite(rt, alloc, source, mode, version, rewrite, rewriters) };
    let read_second = || -> Result<QueueRead<MemTableRecoverContext>>
        requires { IsSync R.row × IsSync S.row × (0 < appenders) × (appenders ≤ 256) }
        ensures { IfOk result (IsQueueRead (S.gives source.entry.now) mode Append version append.entry.now HasRead
            HasReadExactly) }
    { read_append(rt, alloc, source, mode, version, append, appenders) };
    let (rewritten, appended) = join(rt, read_first, read_second);
    let rewritten = rewritten?;
    let appended = appended?;
    Ok((rewritten, appended))
}

/// Reads the files of the rewrite queue by `workers` threads, and gathers whether its atomic groups stand in rows.
///
/// # Errors
///
/// Those of [`read_queue`].
fn read_rewrite<R: Threads + Sync, S: ReadFiles>(
    rt: &R,
    alloc: Global,
    source: &S,
    mode: RecoveryMode,
    version: Version,
    files: &[FileSize],
    workers: usize,
) -> Result<QueueRead<Both<MemTableRecoverContext, GroupRows>>>
    requires { (0 < workers) × (workers ≤ 256) }
    ensures { IfOk result (IsQueueRead (S.gives source.now) mode Rewrite version files.now HaveBothRead HaveBothReadExactly) }
{
    let factory = BothFactory {
        first: MemTableRecoverContextFactory::new(),
        second: GroupRowsFactory,
    };
    let queue = LogQueue::Rewrite;
    read_queue(
        rt, alloc, &factory, source, mode, queue, version, files, workers,
    )
}

/// Reads the files of the append queue by `workers` threads.
///
/// # Errors
///
/// Those of [`read_queue`].
fn read_append<R: Threads + Sync, S: ReadFiles>(
    rt: &R,
    alloc: Global,
    source: &S,
    mode: RecoveryMode,
    version: Version,
    files: &[FileSize],
    workers: usize,
) -> Result<QueueRead<MemTableRecoverContext>>
    requires { (0 < workers) × (workers ≤ 256) }
    ensures { IfOk result (IsQueueRead (S.gives source.now) mode Append version files.now HasRead HasReadExactly) }
{
    let factory = MemTableRecoverContextFactory::new();
    let queue = LogQueue::Append;
    read_queue(
        rt, alloc, &factory, source, mode, queue, version, files, workers,
    )
}
