//! The files of a queue that a reader has read, up to where the last one can't be read.

ghost use Rattle.std.specs.Prelude.{◌≡◌, ◌≢◌, ◌⊎◌, ◌+◌, ◌^◌, ◌<◌, List, ◌++◌, ℕ, length, map, IfErr, IfOk};
ghost use Rattle.raft_files.specs.Asks.{NumberedBytes};
ghost use Rattle.raft_engine_prefixes.specs.Done.{AreConsecutive, numbers};
ghost use Rattle.raft_opening.specs.SizedFiles.{IsPartFault, size_of};
ghost use Rattle.raft_ffi.specs.Words.{HasNoFront, IsFoundFault, IsFrontRead, IsLeftRead, IsNextFault, IsQueueReadAs, IsReadOnAs, IsReadTo, IsReadable, IsReadyAs, IsTailBehind, BatchesRead, part_of, signature_of, size_in};

use raft_base::{Error, FileId, LogFileContext, LogQueue, Result, Version};
use raft_engine::found::unless_memory;
use raft_engine::found_queue::ReadyQueue;
use raft_engine::missing::Missing;
use raft_engine::{CutTail, RecoveryMode};
use raft_opening::check_rest;
use raft_opening::sized_files::{SizedQueue, check_sizes, known_of, sizes_left};
use raft_reading::FileSize;
use raft_records::{FilePart, next_in};
use std::alloc::Global;

/// The text of the error for files of which the last one can be read on where the reading ended.
const READ_ON: &str = "a batch can be read where the reading of the last file ended";

/// A file of a queue by its number, with its length.
#[repr(C)]
#[derive(Clone, Copy)]
pub struct Size {
    /// The number of the file.
    pub seq: u64,
    /// Its length in bytes.
    pub len: u64,
}

/// Checks that the files of a queue may be opened in `mode`, and returns what is missing in them, what is known of them once
/// that is done, and their lengths then. `sizes` are their numbers and lengths, oldest first, and `rest` the bytes of the last
/// one after the batches that were read.
///
/// # Errors
///
/// `Corruption` if the number of a file isn't one above that of the file before it; those of [`tail_of_rest`]; `Memory`.
pub(crate) fn sized_queue(
    alloc: Global,
    mode: RecoveryMode,
    queue: LogQueue,
    version: Version,
    sizes: &[Size],
    rest: &[u8],
) -> Result<SizedQueue>
    ensures ok { (files : List NumberedBytes) (read : BatchesRead) → IsQueueReadAs queue version sizes.now rest.now read files
        → IfOk result (IsReadyAs mode queue version files read) }
    ensures fault { (files : List NumberedBytes) (read : BatchesRead) → IsQueueReadAs queue version sizes.now rest.now read files
        → IfErr result (λ e. e ≢ Error.Memory → IsFoundFault mode queue version files e ⊎ IsReadOnAs e) }
{
    let found = file_sizes(alloc, sizes)?;
    let files = found.as_slice();
    check_sizes(alloc, queue, files)?;
    let missing = find_missing(alloc, mode, queue, version, files, rest)?;
    let left = sizes_left(alloc, files, &missing)?;
    let known = known_of(alloc, left.as_slice())?;
    let ready = ReadyQueue { missing, known };
    Ok(SizedQueue { ready, left })
}

/// Returns sizes as the reading of files takes them.
///
/// # Errors
///
/// `Memory` alone.
fn file_sizes(alloc: Global, sizes: &[Size]) -> Result<Vec<FileSize>>
    ensures ok { IfOk result (λ found. found.items ≡ map size_in sizes.now) }
    ensures memory { IfErr result (λ e. e ≡ Error.Memory) }
{
    let mut found = Vec::with_capacity(alloc, sizes.len())?;
    for size in sizes {
        found.push(FileSize {
            seq: size.seq,
            len: size.len,
        })?;
    }
    Ok(found)
}

/// Returns what is missing in the files of a queue: a first file, or the cut of the tail of the last one. `rest` are the bytes
/// of the last one after the batches that were read.
///
/// # Errors
///
/// Those of [`tail_of_rest`].
fn find_missing(
    alloc: Global,
    mode: RecoveryMode,
    queue: LogQueue,
    version: Version,
    sizes: &[FileSize],
    rest: &[u8],
) -> Result<Missing>
    ensures ok { (files : List NumberedBytes) (read : BatchesRead) → sizes.now ≡ map size_of files → IsReadTo queue version rest.now read files
        → AreConsecutive (numbers files) → IfOk result (IsLeftRead mode queue version files read) }
    ensures fault { (files : List NumberedBytes) (read : BatchesRead) → sizes.now ≡ map size_of files → IsReadTo queue version rest.now read files
        → IfErr result (λ e. e ≢ Error.Memory → IsFoundFault mode queue version files e ⊎ IsReadOnAs e) }
{
    let Some((last, _)) = sizes.split_last() else {
        return Ok(Missing::FirstFile);
    };
    let file = LogFileContext::new(FileId::new(queue, last.seq), version);
    match tail_of_rest(alloc, mode, &file, last.len, rest)? {
        None => Ok(Missing::Nothing),
        Some(tail) => Ok(Missing::Cut(tail)),
    }
}

/// Returns the tail of a file of `len` bytes that is to be cut off: `rest`, its bytes after the batches that were read. `None`
/// if there are none.
///
/// # Errors
///
/// `Corruption` if `mode` refuses the tail, the file is of the other version, or a batch can be read at its start;
/// `InvalidArgument` if the file is one of raft-engine; `Memory`.
fn tail_of_rest(
    alloc: Global,
    mode: RecoveryMode,
    file: &LogFileContext,
    len: u64,
    rest: &[u8],
) -> Result<Option<CutTail>>
    ensures ok { (front : List ℕ) → IsFrontRead file.now len rest.now front
        → IfOk result (IsTailBehind mode file.now rest.now front) }
    ensures fault { (front : List ℕ) → IsFrontRead file.now len rest.now front → IfErr result (λ e. e ≢ Error.Memory
        → IsPartFault mode (part_of file.now 0 (front ++ rest.now)) e ⊎ IsReadOnAs e) }
{
    let rest_len = rest.len() as u64;
    if rest_len == 0 {
        return Ok(None);
    }
    let offset = len.saturating_sub(rest_len);
    let error = stop_error(alloc, file, offset, rest)?;
    let bytes = Vec::from_slice(alloc, rest)?;
    let part = FilePart::new(file.id, file.version, offset, bytes)?;
    check_rest(mode, &part)?;
    Ok(Some(CutTail {
        file: file.id.seq,
        offset,
        len: rest_len,
        error,
    }))
}

/// Returns the error for which no batch can be read at the start of `rest`, which stands in `file` from `offset` on.
///
/// # Errors
///
/// `Corruption` if a batch can be read there; `Memory`.
fn stop_error(alloc: Global, file: &LogFileContext, offset: u64, rest: &[u8]) -> Result<Error>
    requires ends { offset + length rest.now < 2 ^ 64 }
    ensures unreadable { IfOk result (λ e. HasNoFront (λ xs. IsReadable xs (signature_of file.now)) rest.now) }
    ensures why { IfOk result (IsNextFault (signature_of file.now) rest.now) }
    ensures not_memory { IfOk result (λ e. e ≢ Error.Memory) }
    ensures fault { IfErr result (λ e. e ≢ Error.Memory → IsReadOnAs e) }
{
    match next_in(alloc, file, offset, rest, 0) {
        Ok(_) => Err(Error::corruption(alloc, READ_ON)),
        Err(error) => {
            unless_memory(&error)?;
            Ok(error)
        }
    }
}
