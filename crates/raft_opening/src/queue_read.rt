//! Reading the files of a queue in pieces, each byte once.

ghost use Rattle.std.specs.Prelude.{◌<◌, ◌≤◌, [], IfOk};
ghost use Rattle.std.specs.Thread.{IsSync};
ghost use Rattle.raft_reading.specs.QueueRead.{IsQueueReplayed};
ghost use Rattle.raft_opening.specs.ReadOnce.{AreClosedAndLastRead, AreReplayed, IsQueueRead};

use crate::last_file::{LastRead, read_last};
use crate::sized_files::{SizedQueue, check_sizes, known_of, sizes_left};
use raft_base::{Factory, LogQueue, Result, Version};
use raft_engine::found_queue::ReadyQueue;
use raft_engine::missing::Missing;
use raft_engine::{DamagedBatch, RecoveryMode};
use raft_history::ReplayMachine;
use raft_reading::{FileSize, ReadFiles, replay_files};
use std::alloc::Global;
use std::thread::{Threads, join};

/// The found files of a queue, which a mode accepts, once they are read.
#[derive(Drop)]
pub struct QueueRead<M> {
    /// The machine that has replayed their batches, up to the tail of the last file.
    pub machine: M,
    /// What is missing in the files, and which of their bytes are to be read.
    pub sized: SizedQueue,
    /// The batches of the last file whose entries are damaged, in order; none of the rewrite queue.
    pub damaged: Vec<DamagedBatch>,
}

/// The found files of a queue, once their batches are replayed.
#[derive(Drop)]
pub struct QueueReplayed<M> {
    /// The machine that has replayed them, up to the tail of the last file.
    pub machine: M,
    /// What is missing in the files.
    pub missing: Missing,
    /// The batches of the last file whose entries are damaged, in order; none of the rewrite queue.
    pub damaged: Vec<DamagedBatch>,
}

/// Reads the files of `queue` that `sizes` names, by `workers` threads, into a machine that `factory` makes. Checks that `mode`
/// accepts what stands in the last file after the batches that can be read.
///
/// # Errors
///
/// Those of [`check_sizes`] and of [`replay_queue`]; `Memory`.
pub fn read_queue<M: ReplayMachine, F: Factory<M>, S: ReadFiles, R: Threads + Sync>(
    rt: &R,
    alloc: Global,
    factory: &F,
    source: &S,
    mode: RecoveryMode,
    queue: LogQueue,
    version: Version,
    sizes: &[FileSize],
    workers: usize,
) -> Result<QueueRead<M>>
    requires factory { (m : M) → F.gives factory.now m → M.stands_exactly m [] }
    requires workers { (0 < workers) × (workers ≤ 256) }
    ensures { IfOk result (IsQueueRead (S.gives source.now) mode queue version sizes.now M.stands_for M.stands_exactly) }
{
    check_sizes(alloc, queue, sizes)?;
    let read = replay_queue(
        rt, alloc, factory, source, mode, queue, version, sizes, workers,
    )?;
    let QueueReplayed {
        machine,
        missing,
        damaged,
    } = read;
    let left = sizes_left(alloc, sizes, &missing)?;
    let known = known_of(alloc, left.as_slice())?;
    let ready = ReadyQueue { missing, known };
    let sized = SizedQueue { ready, left };
    Ok(QueueRead {
        machine,
        sized,
        damaged,
    })
}

/// Replays the files of `queue` that `sizes` names. Returns the machine, what is missing in the files, and which batches of the
/// last one have damaged entries.
///
/// # Errors
///
/// Those of the factory, and of [`replay_closed_and_last`].
fn replay_queue<M: ReplayMachine, F: Factory<M>, S: ReadFiles, R: Threads + Sync>(
    rt: &R,
    alloc: Global,
    factory: &F,
    source: &S,
    mode: RecoveryMode,
    queue: LogQueue,
    version: Version,
    sizes: &[FileSize],
    workers: usize,
) -> Result<QueueReplayed<M>>
    requires factory { (m : M) → F.gives factory.now m → M.stands_exactly m [] }
    requires workers { (0 < workers) × (workers ≤ 256) }
    ensures { IfOk result (AreReplayed (S.gives source.now) mode queue version sizes.now M.stands_for M.stands_exactly) }
{
    let Some((last, closed)) = sizes.split_last() else {
        let machine = factory.new_target(alloc)?;
        let damaged = Vec::new(alloc);
        return Ok(QueueReplayed {
            machine,
            missing: Missing::FirstFile,
            damaged,
        });
    };
    let last = *last;
    let read = replay_closed_and_last(
        rt, alloc, factory, source, mode, queue, version, closed, last, workers,
    )?;
    let (machine, LastRead { tail, damaged }) = read;
    match tail {
        None => Ok(QueueReplayed {
            machine,
            missing: Missing::Nothing,
            damaged,
        }),
        Some(tail) => Ok(QueueReplayed {
            machine,
            missing: Missing::Cut(tail),
            damaged,
        }),
    }
}

/// Replays the `closed` files and the `last` one of a queue. Returns the machine that has replayed all, and what was read of the
/// last file.
///
/// # Errors
///
/// Those of [`replay_at_once`] and of the machine.
fn replay_closed_and_last<M: ReplayMachine, F: Factory<M>, S: ReadFiles, R: Threads + Sync>(
    rt: &R,
    alloc: Global,
    factory: &F,
    source: &S,
    mode: RecoveryMode,
    queue: LogQueue,
    version: Version,
    closed: &[FileSize],
    last: FileSize,
    workers: usize,
) -> Result<(M, LastRead)>
    requires factory { (m : M) → F.gives factory.now m → M.stands_exactly m [] }
    requires workers { (0 < workers) × (workers ≤ 256) }
    ensures { IfOk result (AreClosedAndLastRead (S.gives source.now) mode queue version closed.now last M.stands_for
        M.stands_exactly) }
{
    let count = closed.len();
    if count == 0 {
        return read_last(alloc, factory, source, mode, queue, version, last);
    }
    let both = replay_at_once(
        rt, alloc, factory, source, mode, queue, version, closed, last, workers,
    )?;
    let (mut machine, (newest, read)) = both;
    machine.merge(newest, queue)?;
    Ok((machine, read))
}

/// Replays the `closed` files and the `last` one of a queue into a machine each: the last one by one worker, and meanwhile the
/// closed ones by the others. A single worker reads the closed ones first. Returns the machine of the closed files, and that of
/// the last one with what was read of it.
///
/// # Errors
///
/// Those of the factory, of `replay_files` and of [`read_last`].
fn replay_at_once<M: ReplayMachine, F: Factory<M>, S: ReadFiles, R: Threads + Sync>(
    rt: &R,
    alloc: Global,
    factory: &F,
    source: &S,
    mode: RecoveryMode,
    queue: LogQueue,
    version: Version,
    closed: &[FileSize],
    last: FileSize,
    workers: usize,
) -> Result<(M, (M, LastRead))>
    requires factory { (m : M) → F.gives factory.now m → M.stands_exactly m [] }
    requires workers { (0 < workers) × (workers ≤ 256) }
    ensures older { IfOk result (λ both. IsQueueReplayed (S.gives source.now) queue version closed.now M.stands_for
        M.stands_exactly both.0) }
    ensures newer { IfOk result (λ both. AreClosedAndLastRead (S.gives source.now) mode queue version [] last M.stands_for
        M.stands_exactly both.1) }
{
    if workers == 1 {
        let older = replay_files(rt, alloc, factory, source, closed, queue, version, workers)?;
        let newer = read_last(alloc, factory, source, mode, queue, version, last)?;
        return Ok((older, newer));
    }
    let others = workers - 1;
    let read_closed = || -> Result<M>
        requires { IsSync R.row × IsSync F.row × IsSync S.row × ((m : M) → F.gives factory.now m → M.stands_exactly m [])
            × (0 < others) × (others ≤ 256) }
        ensures { IfOk result (IsQueueReplayed (S.gives source.entry.now) queue version closed.entry.now M.stands_for
            M.stands_exactly) }
    { replay_files(rt, alloc, factory, source, closed, queue, version, others) };
    let read_newest = || -> Result<(M, LastRead)>
        requires { IsSync F.row × IsSync S.row × ((m : M) → F.gives factory.now m → M.stands_exactly m []) }
        ensures { IfOk result (AreClosedAndLastRead (S.gives source.entry.now) mode queue version [] last M.stands_for
            M.stands_exactly) }
    { read_last(alloc, factory, source, mode, queue, version, last) };
    let (older, newer) = join(rt, read_closed, read_newest);
    let older = older?;
    let newer = newer?;
    Ok((older, newer))
}
