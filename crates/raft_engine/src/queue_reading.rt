//! Replaying the files of a queue by workers, up to where the reading of the last one stops.

ghost use Rattle.std.specs.Prelude.{◌≡◌, ◌<◌, ◌≤◌, List, [], ◌∷◌, ◌++◌, IfOk, MatchOption};
ghost use Rattle.raft_base.specs.declared.pipe_log.Version.{Version};
ghost use Rattle.raft_files.specs.Asks.{NumberedBytes};
ghost use Rattle.raft_recover.specs.Files.{AreWholeFiles, whole_file};
ghost use Rattle.raft_replay.specs.Replays.{IsReplayed};
ghost use Rattle.raft_replay.specs.Segments.{MayReplay};
ghost use Rattle.raft_engine.specs.FoundQueues.{IsLastOf};
ghost use Rattle.raft_engine.specs.ReadQueues.{IsReadUpTo, IsReplayedTo};

use crate::found_queue::last_file_part;
use crate::readable_replay::replay_whole_file;
use crate::recovered::CutTail;
use raft_base::{Error, Factory, LogQueue, Result};
use raft_history::ReplayMachine;
use raft_recover::shares::equal_shares;
use raft_replay::{OpenGate, Segment, replay_accepted};
use std::alloc::Global;
use std::thread::Threads;

/// The least number of bytes, about, that a share has: for fewer a further piece costs more than its worker saves.
pub const LEAST_SHARE: usize = 1 << 20;

/// What the reading of a queue's files gives.
#[derive(Drop)]
pub struct QueueRead<M> {
    /// The machine that has replayed their batches, up to the tail of the last file.
    pub machine: M,
    /// The tail of the last file; `None` if all of it can be read, or there is no file.
    pub tail: Option<CutTail>,
}

/// Replays the files of a queue, a segment each, by `workers` threads: first all but the last one, then that one, up to the
/// first byte of it at which no batch can be read.
///
/// # Errors
///
/// `Memory`, those of the factory and of the machine; `Corruption`, `Codec` or `Io` if a batch of another file than the last
/// can't be read.
pub fn read_queue<M: ReplayMachine, F: Factory<M>, R: Threads + Sync>(
    rt: &R,
    alloc: Global,
    factory: &F,
    segments: &[Segment],
    queue: LogQueue,
    workers: usize,
) -> Result<QueueRead<M>>
    requires factory { (m : M) → F.gives factory.now m → M.stands_exactly m [] }
    requires accepted { MayReplay queue workers segments.now }
    ensures { (version : Version) (files : List NumberedBytes) → AreWholeFiles queue version files segments.now
        → IfOk result (λ read. IsReadUpTo M.stands_for M.stands_exactly queue version files read.machine read.tail) }
{
    let Some((_, closed)) = segments.split_last() else {
        let machine = replay_shares(rt, alloc, factory, segments, queue, workers)?;
        return Ok(QueueRead {
            machine,
            tail: None,
        });
    };
    let count = closed.len();
    let (_, last) = segments.split_at(count);
    let mut machine = replay_shares(rt, alloc, factory, closed, queue, workers)?;
    let tail = read_last_file(rt, alloc, factory, &mut machine, last, queue, workers)?;
    Ok(QueueRead { machine, tail })
}

/// Replays the last file of a queue into `machine`, which has replayed those before it. Returns its tail, `None` if all of it
/// can be read. A long file is first tried by several workers, who can replay it only if all of it can be read; else it is
/// replayed by the caller's thread, up to the first byte at which no batch can be read.
///
/// # Errors
///
/// `Memory`, those of the factory and of the machine. Some of the batches may have been replayed then.
fn read_last_file<M: ReplayMachine, F: Factory<M>, R: Threads + Sync>(
    rt: &R,
    alloc: Global,
    factory: &F,
    machine: &mut M,
    last: &[Segment],
    queue: LogQueue,
    workers: usize,
) -> Result<Option<CutTail>>
    requires factory { (m : M) → F.gives factory.now m → M.stands_exactly m [] }
    requires accepted { MayReplay queue workers last.now }
    ensures { (version : Version) (file : NumberedBytes) → AreWholeFiles queue version (file ∷ []) last.now
        → IfOk result (λ tail. IsReplayedTo M.stands_for M.stands_exactly (whole_file queue version file) machine.old machine.new tail) }
{
    if workers > 1 && sum_segment_bytes(last) > LEAST_SHARE {
        match replay_shares(rt, alloc, factory, last, queue, workers) {
            Ok(newer) => {
                machine.merge(newer, queue)?;
                return Ok(None);
            }
            Err(Error::Memory) => return Err(Error::Memory),
            Err(_) => {}
        }
    }
    match last_file_part(last) {
        Some(part) => replay_whole_file(machine, part),
        None => Ok(None),
    }
}

/// Replays segments without a tail, in shares of about the same size by `workers` threads, and returns the machine that has
/// replayed them all.
///
/// # Errors
///
/// `Memory`, those of the factory and of the machine; `Corruption`, `Codec` or `Io` if a batch can't be read.
fn replay_shares<M: ReplayMachine, F: Factory<M>, R: Threads + Sync>(
    rt: &R,
    alloc: Global,
    factory: &F,
    segments: &[Segment],
    queue: LogQueue,
    workers: usize,
) -> Result<M>
    requires factory { (m : M) → F.gives factory.now m → M.stands_exactly m [] }
    requires accepted { MayReplay queue workers segments.now }
    ensures { IfOk result (IsReplayed M.stands_for M.stands_exactly segments.now) }
{
    let shares = equal_shares(alloc, segments, workers, LEAST_SHARE)?;
    replay_accepted(
        rt,
        alloc,
        factory,
        shares.as_slice(),
        queue,
        workers,
        &OpenGate,
    )
}

/// Returns how many bytes all segments have together, at most `usize::MAX`.
pub fn sum_segment_bytes(segments: &[Segment]) -> usize {
    let mut bytes = 0usize;
    for segment in segments {
        for part in segment {
            bytes = bytes.saturating_add(part.bytes().len());
        }
    }
    bytes
}
