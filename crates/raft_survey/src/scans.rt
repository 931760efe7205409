//! Scans of whole files for damage.

ghost use Rattle.std.specs.Prelude.{◌≡◌, ◌≢◌, IfErr, IfOk};
ghost use Rattle.raft_records.specs.Lines.{IsIoError};
ghost use Rattle.raft_survey.specs.FileScans.{IsScanOf};
ghost use Rattle.raft_survey.specs.FileWalks.{IsFileUnread};

use crate::file_walk::walk_file;
use raft_base::{Error, FileId, LogFileContext, LogQueue, Result, Version};
use raft_listing::FileScan;
use raft_reading::{FileSize, ReadFiles};
use std::alloc::Global;

/// Scans one file of `queue` for damage: that with the number `size.seq`, of which the first `size.len` bytes are read from `source` in
/// pieces, in `version`. Damage is what the scan returns, and no error.
///
/// # Errors
///
/// `Io`, whose text begins with the queue, the file and the offset, if a read fails, or gives another number of bytes than it was asked
/// for; `Memory`.
pub fn scan_file<S: ReadFiles>(
    alloc: Global,
    source: &S,
    queue: LogQueue,
    version: Version,
    size: &FileSize,
) -> Result<FileScan>
    ensures ok { IfOk result (IsScanOf (S.gives source.now) queue version size.now) }
    ensures fault { IfErr result (λ e. (IsIoError e → ⊥) → e ≡ Error.Memory) }
    ensures unread { IfErr result (λ e. e ≢ Error.Memory
        → IsFileUnread (S.gives source.now) (S.may_fail source.now) queue size.now e) }
{
    let file = LogFileContext::new(FileId::new(queue, size.seq), version);
    let mut scan = FileScan::new(alloc, size.seq, size.len);
    walk_file(alloc, source, &file, size.len, &mut scan)?;
    Ok(scan)
}
