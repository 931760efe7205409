//! The found files of one queue by their lengths, whose bytes are read where they are needed.

ghost use Rattle.std.specs.Prelude.{◌≡◌, ◌≢◌, ◌⊎◌, ◌<◌, ◌≤◌, ◌^◌, List, ℕ, length, IfErr, IfOk, OnOk};
ghost use Rattle.raft_files.specs.Asks.{NumberedBytes};
ghost use Rattle.raft_records.specs.FilePart.{part_of};
ghost use Rattle.raft_recover.specs.FileRecovery.{bytes_of_sizes};
ghost use Rattle.raft_engine.specs.FoundFiles.{IsFoundFault};
ghost use Rattle.raft_engine.specs.FoundQueues.{IsMissingOf};
ghost use Rattle.raft_opening.specs.SizedFiles.{AreKnownOf, AreLeft, AreNumbersApartAs, AreSized, GivesOnly, IsPartFault, IsReadRefusal, IsSizedQueue, IsTailAccepted, numbers_of};
ghost use Rattle.raft_engine_prefixes.specs.Done.{AreConsecutive, numbers};

use crate::file_rest::check_rest;
use raft_base::{Error, FileId, LogFileContext, LogQueue, Result, Version};
use raft_engine::found::check_next;
use raft_engine::found_queue::ReadyQueue;
use raft_engine::limits::FIRST_SEQ;
use raft_engine::missing::Missing;
use raft_engine::queue_files::QueueFiles;
use raft_engine::{CutTail, RecoveryMode};
use raft_prefix::{Prefix, read_prefix, read_rest};
use raft_reading::{FileSize, ReadFiles};
use std::alloc::Global;

/// The found files of a queue by their lengths, once a mode has accepted them.
#[derive(Drop)]
pub struct SizedQueue {
    /// What is missing in them, and what is known of them once that is asked.
    pub ready: ReadyQueue,
    /// The numbers and lengths of those that are to be read, the last one up to its torn tail.
    pub left: Vec<FileSize>,
}

impl SizedQueue {
    /// Checks that the found files of `queue` may be opened in `mode`. The last one is read to find its tail. `sizes` are their
    /// numbers and lengths, oldest first.
    ///
    /// # Errors
    ///
    /// `Corruption` if the number of a file isn't one above that of the file before it; those of [`find_missing`]; `Memory`.
    pub fn of<S: ReadFiles>(
        alloc: Global,
        source: &S,
        mode: RecoveryMode,
        queue: LogQueue,
        version: Version,
        sizes: &[FileSize],
    ) -> Result<SizedQueue>
        ensures ok { (files : List NumberedBytes) → AreSized (S.gives source.now) queue sizes.now files
            → IfOk result (IsSizedQueue mode queue version files) }
        ensures fault { (files : List NumberedBytes) → AreSized (S.gives source.now) queue sizes.now files
            → IfErr result (λ e. e ≢ Error.Memory → IsFoundFault mode queue version files e
            ⊎ IsReadRefusal (S.gives source.now) (S.may_fail source.now) e) }
    {
        check_sizes(alloc, queue, sizes)?;
        let missing = find_missing(alloc, source, mode, queue, version, sizes)?;
        let left = sizes_left(alloc, sizes, &missing)?;
        let known = known_of(alloc, left.as_slice())?;
        let ready = ReadyQueue { missing, known };
        Ok(SizedQueue { ready, left })
    }
}

/// Checks that the number of each file of `queue` in `sizes` is one above that of the file before it.
///
/// # Errors
///
/// `Corruption` if one isn't; if files are missing between two, the text names the first one missing. `Memory`.
pub fn check_sizes(alloc: Global, queue: LogQueue, sizes: &[FileSize]) -> Result<()>
    ensures ok { OnOk result (AreConsecutive (numbers_of sizes.now)) }
    ensures refused { IfErr result (λ e. e ≢ Error.Memory → AreNumbersApartAs queue (numbers_of sizes.now) e) }
{
    let Some((first, rest)) = sizes.split_first() else {
        return Ok(());
    };
    let mut last = first.seq;
    for file in rest {
        check_next(alloc, queue, last, file.seq)?;
        last = file.seq;
    }
    Ok(())
}

/// Returns what is known of the files that `sizes` names, or of the first file that will be begun if there is none.
///
/// # Errors
///
/// `Memory` alone.
pub fn known_of(alloc: Global, sizes: &[FileSize]) -> Result<QueueFiles>
    ensures ok { IfOk result (AreKnownOf sizes.now) }
    ensures memory { IfErr result (λ e. e ≡ Error.Memory) }
{
    let Some((last, rest)) = sizes.split_last() else {
        return Ok(QueueFiles::first(alloc, FIRST_SEQ));
    };
    let mut closed = Vec::new(alloc);
    for file in rest {
        closed.push(file.seq)?;
    }
    Ok(QueueFiles {
        closed,
        seq: last.seq,
        len: last.len,
    })
}

/// Returns the numbers and lengths of the files that are to be read: those of `sizes`, but the last one without its tail, if its
/// cut is `missing`.
///
/// # Errors
///
/// `Memory` alone.
pub fn sizes_left(alloc: Global, sizes: &[FileSize], missing: &Missing) -> Result<Vec<FileSize>>
    ensures ok { IfOk result (λ left. AreLeft missing.now sizes.now left.items) }
    ensures memory { IfErr result (λ e. e ≡ Error.Memory) }
{
    let mut left = Vec::from_slice(alloc, sizes)?;
    if let Missing::Cut(tail) = missing {
        if let Some(last) = left.pop() {
            left.push(FileSize {
                seq: last.seq,
                len: tail.offset,
            })?;
        }
    }
    Ok(left)
}

/// Returns what is missing in the files of `queue`: a first file, or the cut of the tail of the last one. The last file is read
/// up to the first byte at which no batch can be read, and `mode` has to accept what stands there.
///
/// # Errors
///
/// Those of [`find_tail`].
fn find_missing<S: ReadFiles>(
    alloc: Global,
    source: &S,
    mode: RecoveryMode,
    queue: LogQueue,
    version: Version,
    sizes: &[FileSize],
) -> Result<Missing>
    ensures ok { (files : List NumberedBytes) → AreSized (S.gives source.now) queue sizes.now files → AreConsecutive (numbers files)
        → IfOk result (IsMissingOf mode queue version files) }
    ensures fault { (files : List NumberedBytes) → AreSized (S.gives source.now) queue sizes.now files
        → IfErr result (λ e. e ≢ Error.Memory → IsFoundFault mode queue version files e
        ⊎ IsReadRefusal (S.gives source.now) (S.may_fail source.now) e) }
{
    let Some((last, _)) = sizes.split_last() else {
        return Ok(Missing::FirstFile);
    };
    let file = LogFileContext::new(FileId::new(queue, last.seq), version);
    match find_tail(alloc, source, mode, &file, last.len)? {
        None => Ok(Missing::Nothing),
        Some(tail) => Ok(Missing::Cut(tail)),
    }
}

/// Returns the tail of a file of `len` bytes: its bytes from the first one on at which no batch can be read. `None` if all of the
/// file can be read. `mode` has to allow the cut of the tail. In a rewrite file the entries of each batch before it are checked.
///
/// # Errors
///
/// `Corruption` if `mode` refuses the tail, the file is of the other version, or a batch of a rewrite file has damaged entries;
/// `InvalidArgument` if the file is one of raft-engine; `Io`, whose text begins with the queue, the file and the offset, if a
/// read fails or gives another number of bytes; `Memory`.
fn find_tail<S: ReadFiles>(
    alloc: Global,
    source: &S,
    mode: RecoveryMode,
    file: &LogFileContext,
    len: u64,
) -> Result<Option<CutTail>>
    ensures ok { (bytes : List ℕ) → length bytes ≡ len → GivesOnly (S.gives source.now file.now.id) bytes
        → IfOk result (IsTailAccepted mode (part_of file.now 0 bytes)) }
    ensures fault { (bytes : List ℕ) → length bytes ≡ len → GivesOnly (S.gives source.now file.now.id) bytes
        → IfErr result (λ e. e ≢ Error.Memory → IsPartFault mode (part_of file.now 0 bytes) e
        ⊎ IsReadRefusal (S.gives source.now) (S.may_fail source.now) e) }
{
    let prefix = read_prefix(alloc, source, file, len)?;
    let Prefix {
        len: at,
        stopped,
        ..
    } = prefix;
    let Some(error) = stopped else {
        return Ok(None);
    };
    let rest = read_rest(alloc, source, file, at, len)?;
    check_rest(mode, &rest)?;
    Ok(Some(CutTail {
        file: file.id.seq,
        offset: at,
        len: len - at,
        error,
    }))
}

/// Checks that files have fewer than 2^63 bytes together.
///
/// # Errors
///
/// `Full` alone, if they have as many or more.
pub fn check_few_bytes(sizes: &[FileSize]) -> Result<()>
    ensures ok { OnOk result (bytes_of_sizes sizes.now < 2 ^ 63) }
    ensures fault { IfErr result (λ e. (2 ^ 63 ≤ bytes_of_sizes sizes.now) × (e ≡ Error.Full)) }
{
    let mut left: u64 = (1 << 63) - 1;
    for file in sizes {
        let Some(less) = left.checked_sub(file.len) else {
            return Err(Error::Full);
        };
        left = less;
    }
    Ok(())
}
