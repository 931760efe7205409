//! Recovers the tables of all regions from files that are read in pieces.

ghost use Rattle.std.specs.Prelude.{◌≡◌, ◌≢◌, ◌⊎◌, ◌^◌, ◌<◌, ◌≤◌, IfOk, IfErr, OnOk};
ghost use Rattle.raft_recover.specs.Common.{IsFilesPrintFailure, IsFilesRefusal, IsQueueStop, IsRecoveredFrom, Keeps, PrintsFiles, Sound, bytes_of_sizes};

use crate::recovered::print_recovered;
use raft_accessor::MemTableAccessor;
use raft_base::{Error, LogQueue, Result, Version};
use raft_contexts::MemTableRecoverContextFactory;
use raft_reading::{FileSize, ReadFiles, replay_files};
use std::alloc::Global;
use std::io::Write;
use std::thread::Threads;

/// Recovers the tables of `files` of `queue`, with their cleaned regions and live counts, as
/// [`recover`](crate::recover) does from bytes. The files are all of `version`, and are read from `source`.
/// `workers` workers, 1 to 256, read them, each some neighboring files, piece by piece, so that each has no
/// more than a piece and the longest batch in memory.
///
/// # Errors
///
/// Those of [`replay_files`](raft_reading::replay_files); `Failed` if the files name 2^63 or more entries,
/// key values and deletions of keys together.
pub fn recover_files<R: Threads + Sync, S: ReadFiles>(
    rt: &R,
    alloc: Global,
    source: &S,
    files: &[FileSize],
    queue: LogQueue,
    version: Version,
    workers: usize,
) -> Result<MemTableAccessor>
    requires { (0 < workers) × (workers ≤ 256) }
    ensures ok { IfOk result (IsRecoveredFrom (S.gives source.now) queue version files.now) }
    ensures place { bytes_of_sizes files.now < 2 ^ 63 → IfErr result (λ e. e ≢ Error.Memory
        → IsQueueStop (S.gives source.now) (S.may_fail source.now) queue version files.now Sound e) }
    ensures fault { IfErr result (λ e. e ≢ Error.Memory
        → IsFilesRefusal (S.gives source.now) (S.may_fail source.now) queue version files.now e) }
{
    let factory = MemTableRecoverContextFactory::new();
    let context = replay_files(rt, alloc, &factory, source, files, queue, version, workers)?;
    context.finish()
}

/// Recovers the tables of `files` of `queue`, as [`recover_files`] does, and prints them in the lines of
/// [`print_recovered`].
///
/// # Errors
///
/// Those of [`recover_files`]; nothing has been written then. `Io` if the writer fails; a part of the lines,
/// from the first byte on, may have been written then.
pub fn print_files<R: Threads + Sync, S: ReadFiles, W: Write>(
    rt: &R,
    alloc: Global,
    source: &S,
    files: &[FileSize],
    queue: LogQueue,
    version: Version,
    workers: usize,
    writer: &mut W,
) -> Result<()>
    requires { (0 < workers) × (workers ≤ 256) }
    ensures ok { OnOk result (PrintsFiles (S.gives source.now) queue version files.now
        (W.contents writer.old) (W.contents writer.new)) }
    ensures silent { IfErr result (λ e. Keeps (W.contents writer.old) (W.contents writer.new)
        ⊎ IsFilesPrintFailure (S.gives source.now) queue version files.now
        (W.contents writer.old) (W.contents writer.new) e) }
    ensures fault { IfErr result (λ e. e ≢ Error.Memory
        → IsFilesRefusal (S.gives source.now) (S.may_fail source.now) queue version files.now e
        ⊎ IsFilesPrintFailure (S.gives source.now) queue version files.now
        (W.contents writer.old) (W.contents writer.new) e) }
{
    let accessor = recover_files(rt, alloc, source, files, queue, version, workers)?;
    print_recovered(alloc, &accessor, writer)
}
