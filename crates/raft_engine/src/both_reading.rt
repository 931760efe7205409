//! Reading the found files of both queues at the same time.

ghost use Rattle.std.specs.Prelude.{◌≡◌, ◌<◌, List, IfOk};
ghost use Rattle.std.specs.Thread.{IsSync};
ghost use Rattle.raft_base.specs.declared.pipe_log.LogQueue.TheVariants.{Append, Rewrite};
ghost use Rattle.raft_base.specs.declared.pipe_log.Version.{Version};
ghost use Rattle.raft_contexts.specs.RecoverContext.{HasRead, HasReadExactly};
ghost use Rattle.raft_files.specs.Asks.{NumberedBytes};
ghost use Rattle.raft_recover.specs.Files.{AreWholeFiles};
ghost use Rattle.raft_recover.specs.Recovery.{MayReplayBoth};
ghost use Rattle.raft_replay.specs.Segments.{MayReplay};
ghost use Rattle.raft_engine.specs.ReadQueues.{AreBothReadUpTo, HaveBothRead, HaveBothReadExactly, IsReadUpTo};

use crate::both::{Both, BothFactory};
use crate::group_rows::{GroupRows, GroupRowsFactory, OUT_OF_ROW};
use crate::queue_reading::{LEAST_SHARE, QueueRead, read_queue, sum_segment_bytes};
use crate::segments::check_few_bytes;
use raft_base::{Error, LogQueue, Result};
use raft_contexts::{MemTableRecoverContext, MemTableRecoverContextFactory};
use raft_recover::recovery::part_of_workers;
use raft_replay::{Segment, check_arguments};
use std::alloc::Global;
use std::thread::{Threads, join};

/// What the reading of the files of both queues gives.
#[derive(Drop)]
pub struct BothRead {
    /// The context of the append files, and the tail of the last one.
    pub appended: QueueRead<MemTableRecoverContext>,
    /// The context of the rewrite files, and the tail of the last one.
    pub rewritten: QueueRead<MemTableRecoverContext>,
}

/// Reads the files of both queues, a segment each, by `workers` threads. Each byte is read once, but for those of a long last
/// file with a tail that can't be read, which are read twice.
///
/// # Errors
///
/// `Memory`; any other if the files are refused. Which one says nothing of what a reading in order would refuse first.
pub fn read_both<R: Threads + Sync>(
    rt: &R,
    alloc: Global,
    rewrite: &[Segment],
    append: &[Segment],
    workers: usize,
) -> Result<BothRead>
    ensures { (version : Version) (append_files rewrite_files : List NumberedBytes) → AreWholeFiles Append version append_files append.now
        → AreWholeFiles Rewrite version rewrite_files rewrite.now → IfOk result (AreBothReadUpTo version append_files rewrite_files) }
{
    check_arguments(alloc, rewrite, LogQueue::Rewrite, workers)?;
    check_arguments(alloc, append, LogQueue::Append, workers)?;
    check_few_bytes(append)?;
    check_few_bytes(rewrite)?;
    let (rewritten, appended) = read_queues(rt, alloc, rewrite, append, workers)?;
    let QueueRead { machine, tail } = rewritten;
    let Both { first, second } = machine;
    if second.stand() {
        let rewritten = QueueRead {
            machine: first,
            tail,
        };
        return Ok(BothRead {
            appended,
            rewritten,
        });
    }
    Err(Error::invalid_argument(alloc, OUT_OF_ROW))
}

/// Reads both queues. If the rewrite queue is short, or there is one worker, they are read one after the other, each by all
/// workers; else at the same time, by a part of the workers each.
///
/// # Errors
///
/// Those of [`read_rewrite`] and of [`read_append`].
fn read_queues<R: Threads + Sync>(
    rt: &R,
    alloc: Global,
    rewrite: &[Segment],
    append: &[Segment],
    workers: usize,
) -> Result<
    (
        QueueRead<Both<MemTableRecoverContext, GroupRows>>,
        QueueRead<MemTableRecoverContext>,
    ),
>
    requires { MayReplayBoth workers rewrite.now append.now }
    ensures rewritten { (version : Version) (files : List NumberedBytes) → AreWholeFiles Rewrite version files rewrite.now
        → IfOk result (λ both. IsReadUpTo HaveBothRead HaveBothReadExactly Rewrite version files both.0.machine both.0.tail) }
    ensures appended { (version : Version) (files : List NumberedBytes) → AreWholeFiles Append version files append.now
        → IfOk result (λ both. IsReadUpTo HasRead HasReadExactly Append version files both.1.machine both.1.tail) }
{
    let rewrite_bytes = sum_segment_bytes(rewrite);
    if workers == 1 || rewrite_bytes < LEAST_SHARE {
        let rewritten = read_rewrite(rt, alloc, rewrite, workers)?;
        let appended = read_append(rt, alloc, append, workers)?;
        return Ok((rewritten, appended));
    }
    let rewriters = part_of_workers(workers, rewrite_bytes, sum_segment_bytes(append));
    let appenders = workers - rewriters;
    let read_first = || -> Result<QueueRead<Both<MemTableRecoverContext, GroupRows>>>
        requires { IsSync R.row × MayReplay Rewrite rewriters rewrite.now }
        ensures { (version : Version) (files : List NumberedBytes) → AreWholeFiles Rewrite version files rewrite.entry.now
            → IfOk result (λ read. IsReadUpTo HaveBothRead HaveBothReadExactly Rewrite version files read.machine read.tail) }
    { read_rewrite(rt, alloc, rewrite, rewriters) };
    let read_second = || -> Result<QueueRead<MemTableRecoverContext>>
        requires { IsSync R.row × MayReplay Append appenders append.now }
        ensures { (version : Version) (files : List NumberedBytes) → AreWholeFiles Append version files append.entry.now
            → IfOk result (λ read. IsReadUpTo HasRead HasReadExactly Append version files read.machine read.tail) }
    { read_append(rt, alloc, append, appenders) };
    let (rewritten, appended) = join(rt, read_first, read_second);
    let rewritten = rewritten?;
    let appended = appended?;
    Ok((rewritten, appended))
}

/// Reads the files of the rewrite queue by `workers` threads, and gathers whether its atomic groups stand in rows.
///
/// # Errors
///
/// Those of [`read_queue`].
fn read_rewrite<R: Threads + Sync>(
    rt: &R,
    alloc: Global,
    segments: &[Segment],
    workers: usize,
) -> Result<QueueRead<Both<MemTableRecoverContext, GroupRows>>>
    requires { MayReplay Rewrite workers segments.now }
    ensures { (version : Version) (files : List NumberedBytes) → AreWholeFiles Rewrite version files segments.now
        → IfOk result (λ read. IsReadUpTo HaveBothRead HaveBothReadExactly Rewrite version files read.machine read.tail) }
{
    let factory = BothFactory {
        first: MemTableRecoverContextFactory::new(),
        second: GroupRowsFactory,
    };
    read_queue(rt, alloc, &factory, segments, LogQueue::Rewrite, workers)
}

/// Reads the files of the append queue by `workers` threads.
///
/// # Errors
///
/// Those of [`read_queue`].
fn read_append<R: Threads + Sync>(
    rt: &R,
    alloc: Global,
    segments: &[Segment],
    workers: usize,
) -> Result<QueueRead<MemTableRecoverContext>>
    requires { MayReplay Append workers segments.now }
    ensures { (version : Version) (files : List NumberedBytes) → AreWholeFiles Append version files segments.now
        → IfOk result (λ read. IsReadUpTo HasRead HasReadExactly Append version files read.machine read.tail) }
{
    let factory = MemTableRecoverContextFactory::new();
    read_queue(rt, alloc, &factory, segments, LogQueue::Append, workers)
}
