//! Finding and deleting the files that no table needs.

ghost use Rattle.std.specs.Prelude.{◌≡◌, ◌≤◌, ◌++◌, map, IfErr, IfOk, OnOk};
ghost use Rattle.std.specs.Vec.{vec_len};
ghost use Rattle.raft_engine.specs.FileFailures.{FailsAmong};
ghost use Rattle.raft_engine.specs.QueueFilesOf.{IsQueueShorterBy, files_known};
ghost use Rattle.raft_engine.specs.Purged.{IsLeastNeeded, delete_asks, front_below, least_among};

use crate::queue_files::QueueFiles;
use raft_accessor::MemTableAccessor;
use raft_base::{Error, FileSeq, LogQueue, Result};
use raft_files::EngineFiles;
use raft_table::MemTable;

/// Returns the least file number that a table needs in `queue`, or `last` if that is less, or no table needs a file there.
/// Which file a table needs is said by `MemTable::min_file_seq`.
///
/// # Errors
///
/// `Memory` alone.
pub fn least_needed_file(
    accessor: &MemTableAccessor,
    queue: LogQueue,
    last: FileSeq,
) -> Result<FileSeq>
    ensures ok { IfOk result (λ least. IsLeastNeeded queue accessor.now.tables last least) }
    ensures memory { IfErr result (λ e. e ≡ Error.Memory) }
{
    let tables = accessor.tables()?;
    Ok(least_file_among(tables.as_slice(), queue, last))
}

/// Returns the least file number that one of `tables` has in `queue` (`MemTable::min_file_seq`), or `last` if that is less, or
/// none has a record there.
fn least_file_among(tables: &[&MemTable], queue: LogQueue, last: FileSeq) -> FileSeq
    ensures { result ≡ least_among queue last (map (λ t. t.now) tables.now) }
{
    let mut least = last;
    for table in tables {
        if let Some(seq) = table.min_file_seq(queue) {
            least = least.min(seq);
        }
    }
    least
}

/// Returns how many of `seqs`, from the first one on, are below `least`: it stops at the first that isn't.
pub fn count_below(seqs: &[FileSeq], least: FileSeq) -> usize
    ensures { result ≡ front_below least seqs.now }
{
    let mut count = 0usize;
    for seq in seqs {
        if *seq >= least {
            return count;
        }
        count += 1;
    }
    count
}

/// Deletes the `count` oldest files of `queue`, and takes their numbers off the list of closed files of that queue, which is
/// `append` or `rewrite`.
///
/// # Errors
///
/// Those of `EngineFiles::delete_oldest`. Some files were deleted then, and both lists are unchanged.
pub fn delete_oldest<F: EngineFiles>(
    files: &mut F,
    queue: LogQueue,
    count: usize,
    append: &mut QueueFiles,
    rewrite: &mut QueueFiles,
) -> Result<()>
    requires { count ≤ vec_len (files_known queue append.old rewrite.old).closed }
    ensures asked { OnOk result (F.asked files.new ≡ delete_asks queue count ++ F.asked files.old) }
    ensures taken { OnOk result (IsQueueShorterBy queue count append.old rewrite.old append.new rewrite.new) }
    ensures fault { IfErr result (FailsAmong F.may_fail (delete_asks queue count) (F.asked files.old)
        (F.asked files.new)) }
{
    for _ in 0..count {
        files.delete_oldest(queue)?;
    }
    match queue {
        LogQueue::Append => {
            append.closed.drain(..count);
        }
        LogQueue::Rewrite => {
            rewrite.closed.drain(..count);
        }
    }
    Ok(())
}
