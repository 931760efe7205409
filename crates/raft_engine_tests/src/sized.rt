//! Tests of files that are read in pieces when they are opened: what is found in them, and what comes of a read that fails.

use crate::batches::Part::Large;
use crate::batches::{Part, REGION};
use crate::calls::{copy_files, holds, new_engine, rotate, write_parts};
use crate::engine::table_text;
use raft_base::{FileBlockHandle, FileId, FileSeq, LogQueue, Version};
use raft_engine::{Opened, RecoveryMode, Unopened};
use raft_files::{AppendError, Asked, EngineFiles, NotesFound};
use raft_opening::open_in_pieces;
use raft_reading::{FileSize, ReadFiles};
use raft_records::{Error, Result};
use std::alloc::Global;
use std::io;
use std::io::ErrorKind;
use std::thread::Threads;

/// Files of an engine that only note what is asked of them, and refuse reads.
#[derive(Drop)]
struct UnreadFiles {
    /// What was asked so far.
    asked: Asked,
}

impl EngineFiles for UnreadFiles {
    ghost asked = { λ files. files.asked.asks };

    /// Notes that `bytes` are appended to `queue`, and keeps them nowhere. Never fails.
    fn append(&mut self, queue: LogQueue, bytes: &[u8]) -> std::result::Result<(), AppendError> {
        self.asked.put(queue, bytes);
        Ok(())
    }

    /// Notes that the file `seq` of `queue` is begun. Never fails.
    fn rotate(&mut self, queue: LogQueue, seq: FileSeq) -> Result<()> {
        self.asked.begin(queue, seq);
        Ok(())
    }

    /// Notes that `queue` is synced. Never fails.
    fn sync(&mut self, queue: LogQueue) -> Result<()> {
        self.asked.sync(queue);
        Ok(())
    }

    /// Notes that the oldest file of `queue` is deleted. Never fails.
    fn delete_oldest(&mut self, queue: LogQueue) -> Result<()> {
        self.asked.delete(queue);
        Ok(())
    }

    /// Notes that the last file of `queue` is cut to `len` bytes. Never fails.
    fn truncate(&mut self, queue: LogQueue, len: u64) -> Result<()> {
        self.asked.cut(queue, len);
        Ok(())
    }

    /// Reads nothing.
    ///
    /// # Errors
    ///
    /// `Failed`, always.
    fn read(&mut self, _place: FileBlockHandle) -> Result<Vec<u8>> {
        Err(Error::Failed)
    }
}

impl NotesFound for UnreadFiles {
    /// Takes `found` for what was asked of the files so far.
    fn note_found(&mut self, found: Asked) {
        self.asked = found;
    }
}

/// Two append files in memory, of which reads fail from an offset on.
#[derive(Drop)]
struct TwoFiles {
    /// The bytes of file 1.
    first: Vec<u8>,
    /// The bytes of file 2.
    second: Vec<u8>,
    /// The offset from which on reads fail, in both files.
    fails_from: u64,
}

impl ReadFiles for TwoFiles {
    /// Appends at most `len` bytes of `file` from `offset` on to `bytes`; fewer if it ends before.
    ///
    /// # Errors
    ///
    /// `TimedOut` for offsets from which reads fail; lack of memory.
    fn read(&self, file: FileId, offset: u64, len: usize, bytes: &mut Vec<u8>) -> io::Result<()> {
        if offset >= self.fails_from {
            return Err(io::Error::from(ErrorKind::TimedOut));
        }
        let held = if file.seq == 1 {
            &self.first
        } else {
            &self.second
        };
        bytes.extend_from_slice(slice_from(held.as_slice(), offset, len))?;
        Ok(())
    }
}

/// Returns at most `len` of these bytes from `offset` on; fewer if they end before.
fn slice_from(bytes: &[u8], offset: u64, len: usize) -> &[u8] {
    let Some((_, rest)) = bytes.split_at_checked(offset as usize) else {
        return &[];
    };
    let (part, _) = rest.split_at(len.min(rest.len()));
    part
}

/// How many bytes the second file lacks at its end; the offset from which on reads fail; and what the opened engine holds,
/// empty if the opening fails.
type Row = (usize, u64, &'static str);

static ROWS: [Row; 5] = [
    (0, u64::MAX, "[1,2801)"),
    (1, u64::MAX, "[1,2401)"),
    (1_400_000, u64::MAX, "[1,801)"),
    (7_400_000, u64::MAX, "[1,401)"),
    (0, 4 << 20, ""),
];

/// The batches of the second file: two of more than a MiB each, and between them one that is longer than a piece.
static SECOND: [Part; 3] = [Large(401, 801), Large(801, 2401), Large(2401, 2801)];

/// Returns the bytes of two append files: the first has one batch, the second those of [`SECOND`].
///
/// # Errors
///
/// Those of the engine's calls; `Failed` if there are fewer than two files; `Memory`.
fn bytes_of_two_files(alloc: Global) -> Result<(Vec<u8>, Vec<u8>)> {
    let mut engine = new_engine(alloc)?;
    write_parts(alloc, &mut engine, &[Large(1, 401)], false)?;
    rotate(&mut engine)?;
    for part in &SECOND {
        write_parts(alloc, &mut engine, &[*part], false)?;
    }
    let mut files = copy_files(&engine, LogQueue::Append)?;
    let Some((_, second)) = files.pop() else {
        return Err(Error::Failed);
    };
    let Some((_, first)) = files.pop() else {
        return Err(Error::Failed);
    };
    Ok((first, second))
}

/// Returns the two files as a row says: the second one lacks bytes, and reads fail.
///
/// # Errors
///
/// `Memory` alone.
fn with_missing_bytes_of_row(
    alloc: Global,
    first: &[u8],
    second: &[u8],
    row: &Row,
) -> Result<TwoFiles> {
    let (left, _) = second.split_at(second.len().saturating_sub(row.0));
    Ok(TwoFiles {
        first: Vec::from_slice(alloc, first)?,
        second: Vec::from_slice(alloc, left)?,
        fails_from: row.1,
    })
}

/// Opens an engine over the two files in pieces, with four workers.
///
/// # Errors
///
/// Those of [`open_in_pieces`], with the files that weren't opened.
fn open_two_files<R: Threads + Sync>(
    rt: &R,
    alloc: Global,
    held: &TwoFiles,
) -> std::result::Result<Opened<UnreadFiles>, Unopened<UnreadFiles>> {
    let files = UnreadFiles {
        asked: Asked::new(),
    };
    let mode = RecoveryMode::TolerateTornTail;
    let sizes = [
        file_size(1, held.first.len()),
        file_size(2, held.second.len()),
    ];
    open_in_pieces(rt, alloc, mode, Version::V2, files, held, &sizes, &[], 4)
}

/// Returns the number and the length of a file.
fn file_size(seq: FileSeq, len: usize) -> FileSize {
    FileSize {
        seq,
        len: len as u64,
    }
}

/// Tests whether the two files are opened as a row says, or a read fails.
///
/// # Errors
///
/// That of the opening, unless a read failed; `Memory`.
fn is_row_opened<R: Threads + Sync>(
    rt: &R,
    alloc: Global,
    held: &TwoFiles,
    row: &Row,
) -> Result<bool> {
    match open_two_files(rt, alloc, held) {
        Ok(opened) => Ok(
            table_text(alloc, opened.engine.accessor().get(REGION))?.as_str() == row.2,
        ),
        Err(unopened) => match unopened.error {
            Error::Io(e) => Ok(row.2.is_empty() && e.kind() == ErrorKind::TimedOut),
            error => Err(error),
        },
    }
}

/// Tests whether the two files are opened as each row says.
///
/// # Errors
///
/// Those of [`bytes_of_two_files`], and of an opening in which no read failed; `Memory`.
fn are_rows_opened<R: Threads + Sync>(rt: &R, alloc: Global) -> Result<bool> {
    let (first, second) = bytes_of_two_files(alloc)?;
    for row in &ROWS {
        let held = with_missing_bytes_of_row(alloc, first.as_slice(), second.as_slice(), row)?;
        if !is_row_opened(rt, alloc, &held, row)? {
            return Ok(false);
        }
    }
    Ok(true)
}

/// Tests openings that read files piece by piece, also of files that are torn or fail to be read.
#[test]
fn files_are_opened_in_pieces(rt: HostRuntime) {
    assert!(rt; holds!(are_rows_opened(&rt, rt.alloc())));
}
