//! Replays the files of a queue, by several workers.

ghost use Rattle.std.specs.Prelude.{◌≡◌, ◌≢◌, ◌<◌, ◌≤◌, List, [], length, IfOk, IfErr};
ghost use Rattle.raft_reading.specs.Common.{Error, IsQueueReplayed, IsQueueStop, IsStoodFor, IsSync};

use crate::ReadFiles;
use crate::file_pieces::replay_file_with_buffer;
use raft_base::{Error, Factory, FileId, FileSeq, LogFileContext, LogQueue, Result, Version};
use raft_history::ReplayMachine;
use std::alloc::Global;
use std::thread::{Threads, join};

/// The number of a file, and its length in bytes.
#[derive(Clone, Copy, PartialEq, Eq, Debug)]
pub struct FileSize {
    /// The number of the file.
    pub seq: FileSeq,
    /// How many bytes it has.
    pub len: u64,
}

/// Replays `files` of `queue`, in order, by `workers` workers, 1 to 256, and returns one machine. The files
/// are all of `version`, and are read from `source`. Each worker replays some neighboring files, of about the
/// same number of bytes in all, into a machine of its own, as [`replay_file`](crate::replay_file) does;
/// neighboring machines are then merged. The result is that of one worker. The caller does the work of one
/// for which no thread can be started. The machines that `factory` makes must stand for no batch.
///
/// # Errors
///
/// `Memory`; the factory's own; and those of [`replay_file`](crate::replay_file). If workers fail for another
/// reason than lack of memory, in reading or in a merge, one worker reads all files once more, and the error
/// is that of the first batch in order that is refused.
pub fn replay_files<M: ReplayMachine, F: Factory<M>, S: ReadFiles, R: Threads + Sync>(
    rt: &R,
    alloc: Global,
    factory: &F,
    source: &S,
    files: &[FileSize],
    queue: LogQueue,
    version: Version,
    workers: usize,
) -> Result<M>
    requires factory { (m : M) → F.gives factory.now m → M.stands_exactly m [] }
    requires workers { (0 < workers) × (workers ≤ 256) }
    ensures ok { IfOk result (IsQueueReplayed (S.gives source.now) queue version files.now M.stands_for
        M.stands_exactly) }
    ensures fault { IfErr result (λ e. e ≢ Error.Memory → ¬ (F.may_refuse factory.now e)
        → IsQueueStop (S.gives source.now) (S.may_fail source.now) queue version files.now
        (IsStoodFor M.stands_for) e) }
{
    if workers > 1 && files.len() > 1 {
        match replay_files_in_parallel(rt, alloc, factory, source, files, queue, version, workers) {
            Ok(machine) => return Ok(machine),
            Err(Error::Memory) => return Err(Error::Memory),
            Err(_) => {}
        }
    }
    replay_files_one_by_one(alloc, factory, source, files, queue, version)
}

/// Replays `files` by `workers` workers. Half of these, rounded down, replay the first files, with about as
/// large a part of all bytes; the others replay the rest at the same time. Each half divides its files in the
/// same way.
///
/// # Errors
///
/// Those of [`replay_files`], of any worker: not always the first one in order.
fn replay_files_in_parallel<M: ReplayMachine, F: Factory<M>, S: ReadFiles, R: Threads + Sync>(
    rt: &R,
    alloc: Global,
    factory: &F,
    source: &S,
    files: &[FileSize],
    queue: LogQueue,
    version: Version,
    workers: usize,
) -> Result<M>
    requires factory { (m : M) → F.gives factory.now m → M.stands_exactly m [] }
    ensures { IfOk result (IsQueueReplayed (S.gives source.now) queue version files.now M.stands_for
        M.stands_exactly) }
{
    if workers < 2 || files.len() < 2 {
        return replay_files_one_by_one(alloc, factory, source, files, queue, version);
    }
    let first_half = workers / 2;
    let second_half = workers - first_half;
    let (first, second) = files.split_at(count_files_of_share(files, first_half, workers));
    let front = || -> Result<M>
        requires { IsSync R.row × IsSync F.row × IsSync S.row × ((m : M) → F.gives factory.now m → M.stands_exactly m []) }
        ensures { IfOk result (IsQueueReplayed (S.gives source.entry.now) queue version first.entry.now M.stands_for
            M.stands_exactly) }
    {
        replay_files_in_parallel(
            rt, alloc, factory, source, first, queue, version, first_half,
        )
    };
    let back = || -> Result<M>
        requires { IsSync R.row × IsSync F.row × IsSync S.row × ((m : M) → F.gives factory.now m → M.stands_exactly m []) }
        ensures { IfOk result (IsQueueReplayed (S.gives source.entry.now) queue version second.entry.now M.stands_for
            M.stands_exactly) }
    {
        replay_files_in_parallel(
            rt,
            alloc,
            factory,
            source,
            second,
            queue,
            version,
            second_half,
        )
    };
    let (older, newer) = join(rt, front, back);
    let mut machine = older?;
    machine.merge(newer?, queue)?;
    Ok(machine)
}

/// Returns how many of `files`, from the first one on, have about `parts` of `whole` equal parts of all
/// bytes: at least one, and not all of them. There must be two files or more.
fn count_files_of_share(files: &[FileSize], parts: usize, whole: usize) -> usize
    requires { (1 < length files.now) × (0 < whole) }
    ensures { (0 < result) × (result < length files.now) }
{
    let wanted = (total_bytes(files) / whole as u64).saturating_mul(parts as u64);
    let mut bytes = 0u64;
    let mut count = 0;
    for file in files {
        if bytes.saturating_add(file.len / 2) >= wanted {
            break;
        }
        bytes = bytes.saturating_add(file.len);
        count += 1;
    }
    count.clamp(1, files.len() - 1)
}

/// Returns how many bytes `files` have together, at most 2^64 - 1.
fn total_bytes(files: &[FileSize]) -> u64 {
    let mut bytes = 0u64;
    for file in files {
        bytes = bytes.saturating_add(file.len);
    }
    bytes
}

/// Replays `files` of `queue`, one after another, into one machine, which it returns.
///
/// # Errors
///
/// The factory's own; those of [`replay_file`](crate::replay_file); `Memory`.
fn replay_files_one_by_one<M: ReplayMachine, F: Factory<M>, S: ReadFiles>(
    alloc: Global,
    factory: &F,
    source: &S,
    files: &[FileSize],
    queue: LogQueue,
    version: Version,
) -> Result<M>
    requires { (m : M) → F.gives factory.now m → M.stands_exactly m [] }
    ensures ok { IfOk result (IsQueueReplayed (S.gives source.now) queue version files.now M.stands_for
        M.stands_exactly) }
    ensures fault { IfErr result (λ e. e ≢ Error.Memory → ¬ (F.may_refuse factory.now e)
        → IsQueueStop (S.gives source.now) (S.may_fail source.now) queue version files.now
        (IsStoodFor M.stands_for) e) }
{
    let mut machine = factory.new_target(alloc)?;
    let mut piece = Vec::new(alloc);
    for file in files {
        let context = LogFileContext::new(FileId::new(queue, file.seq), version);
        replay_file_with_buffer(&mut machine, source, &context, file.len, &mut piece)?;
    }
    Ok(machine)
}
