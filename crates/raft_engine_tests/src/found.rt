//! Tests of what an opening makes of found files. What is damaged or missing is refused with its place, and a torn tail is cut
//! off. Files of which nothing says that they were there aren't missed.

use crate::batches::Part::{Entries, Put};
use crate::calls::{
    LogFiles, copy_files, flip_bit_of_first_file, holds, new_engine, open_copies, open_in_mode,
    rotate, write_parts,
};
use crate::reopened::has_text;
use raft_base::{FileSeq, LogQueue};
use raft_engine::{Engine, RecoveryMode};
use raft_files::MemoryFiles;
use raft_records::{Error, Result};
use std::alloc::Global;
use std::thread::Threads;

/// Returns the append file of an engine that wrote [1,3), `k=v` and [3,9): batches of 33, 28 and 41 bytes.
///
/// # Errors
///
/// Those of the engine's calls; `Memory`.
pub fn file_of_three_batches(alloc: Global) -> Result<LogFiles> {
    let mut engine = new_engine(alloc)?;
    write_file_of_three_batches(alloc, &mut engine)
}

/// Writes [1,3), `k=v` and [3,9), a batch each, and returns a copy of the append file.
///
/// # Errors
///
/// Those of the engine's calls; `Memory`.
fn write_file_of_three_batches(
    alloc: Global,
    engine: &mut Engine<MemoryFiles>,
) -> Result<LogFiles> {
    write_parts(alloc, engine, &[Entries(1, 3)], true)?;
    write_parts(alloc, engine, &[Put("v")], true)?;
    write_parts(alloc, engine, &[Entries(3, 9)], true)?;
    copy_files(engine, LogQueue::Append)
}

/// Returns the four append files of an engine that wrote [1,3), `k=v`, [3,9) and [9,12), each to a file of its own.
///
/// # Errors
///
/// Those of the engine's calls; `Memory`.
pub fn four_files_of_a_batch(alloc: Global) -> Result<LogFiles> {
    let mut engine = new_engine(alloc)?;
    write_four_batches(alloc, &mut engine)
}

/// Writes [1,3), `k=v`, [3,9) and [9,12), each to an append file of its own, and returns copies of these.
///
/// # Errors
///
/// Those of the engine's calls; `Memory`.
fn write_four_batches(alloc: Global, engine: &mut Engine<MemoryFiles>) -> Result<LogFiles> {
    write_parts(alloc, engine, &[Entries(1, 3)], true)?;
    rotate(engine)?;
    write_parts(alloc, engine, &[Put("v")], true)?;
    rotate(engine)?;
    write_parts(alloc, engine, &[Entries(3, 9)], true)?;
    rotate(engine)?;
    write_parts(alloc, engine, &[Entries(9, 12)], true)?;
    copy_files(engine, LogQueue::Append)
}

/// What is done to append files before they are opened.
enum Change {
    /// The lowest bit of the byte at this position of the one file is changed.
    Flipped(usize),
    /// The one file gets this number.
    Renumbered(FileSeq),
    /// The one file is cut to this length.
    Cut(usize),
    /// Of the four files those with these numbers are taken away.
    Without(&'static [FileSeq]),
    /// The one file has just the header of raft-engine's files, with the version after it.
    OfEngine,
}

/// Returns the append files that `change` makes of what an engine wrote.
///
/// # Errors
///
/// Those of the engine's calls.
fn make_change(alloc: Global, change: &Change) -> Result<LogFiles> {
    match change {
        Change::Flipped(at) => Ok(flip_bit_of_first_file(file_of_three_batches(alloc)?, *at)),
        Change::Renumbered(seq) => Ok(renumber_last_file(file_of_three_batches(alloc)?, *seq)),
        Change::Cut(len) => Ok(cut_last_file(file_of_three_batches(alloc)?, *len)),
        Change::Without(numbers) => drop_numbered_files(
            alloc,
            four_files_of_a_batch(alloc)?,
            numbers,
        ),
        Change::OfEngine => of_engine(alloc),
    }
}

/// Returns `files`, of which the first one has the number `seq`.
fn renumber_last_file(mut files: LogFiles, seq: FileSeq) -> LogFiles {
    if let Some(first) = files.first_mut() {
        first.0 = seq;
    }
    files
}

/// Returns an append file that begins as those of the raft-engine of TiKV do.
///
/// # Errors
///
/// `Memory` alone.
fn of_engine(alloc: Global) -> Result<LogFiles> {
    let mut bytes = Vec::from_slice(
        alloc,
        b"RAFT-LOG-FILE-HEADER-9986AB3E47F320B394C8E84916EB0ED5",
    )?;
    bytes.extend_from_slice(&[0, 0, 0, 0, 0, 0, 0, 2])?;
    let mut files = Vec::new(alloc);
    files.push((1, bytes))?;
    Ok(files)
}

/// Returns `files`, of which the last one is cut to `len` bytes.
fn cut_last_file(mut files: LogFiles, len: usize) -> LogFiles {
    if let Some(last) = files.last_mut() {
        last.1.truncate(len);
    }
    files
}

/// Returns `files` without those that have these `numbers`.
///
/// # Errors
///
/// `Memory` alone.
fn drop_numbered_files(alloc: Global, files: LogFiles, numbers: &[FileSeq]) -> Result<LogFiles> {
    let mut left = Vec::new(alloc);
    for file in files {
        if !numbers.contains(&file.0) {
            left.push(file)?;
        }
    }
    Ok(left)
}

/// What an opening of append files has to answer.
pub enum Answer {
    /// It opens them, and the engine holds this.
    Holds(&'static str),
    /// It refuses them with `Corruption` and this text.
    Says(&'static str),
    /// It refuses them with `InvalidArgument` and this text.
    Names(&'static str),
}

static ROWS: [(Change, Answer); 8] = [
    // Of a header: the length, of which the highest byte and the lowest one, at offset 6, are changed.
    (
        Change::Flipped(0),
        Answer::Says(
            "append file 1, offset 0: no batch can be read there, but one stands behind it, at offset 33",
        ),
    ),
    (
        Change::Flipped(39),
        Answer::Says(
            "append file 1, offset 33: no batch can be read there, but one stands behind it, at offset 61",
        ),
    ),
    (
        Change::Renumbered(2),
        Answer::Says(
            "append file 2, offset 0: no batch can be read there, but at offset 0 one stands that is signed for file 1",
        ),
    ),
    (
        Change::Without(&[2]),
        Answer::Says("append file 2: it is missing, files 1 and 3 are there"),
    ),
    (
        Change::Without(&[2, 3]),
        Answer::Says("append file 2: it is missing, files 1 and 4 are there"),
    ),
    // Nothing says of the last file and of the first ones that they were there.
    (Change::Without(&[4]), Answer::Holds("[1,9)k=v")),
    (Change::Without(&[1, 2]), Answer::Holds("[3,12)")),
    // The last batch lacks its last byte.
    (Change::Cut(101), Answer::Holds("[1,3)k=v")),
];

/// Returns the rows of changed files, each with what an opening answers.
fn rows_of_changes() -> &'static [(Change, Answer)] {
    &ROWS
}

static ROWS_OF_MODES: [(RecoveryMode, Change, Answer); 12] = [
    // In no mode a file of raft-engine is cut.
    (
        RecoveryMode::AbsoluteConsistency,
        Change::OfEngine,
        Answer::Names(
            "append file 1, offset 0: the file is one of raft-engine, which begins with a header",
        ),
    ),
    (
        RecoveryMode::TolerateTornTail,
        Change::OfEngine,
        Answer::Names(
            "append file 1, offset 0: the file is one of raft-engine, which begins with a header",
        ),
    ),
    (
        RecoveryMode::TolerateTailCorruption,
        Change::OfEngine,
        Answer::Names(
            "append file 1, offset 0: the file is one of raft-engine, which begins with a header",
        ),
    ),
    // Nothing is cut off.
    (
        RecoveryMode::AbsoluteConsistency,
        Change::Cut(102),
        Answer::Holds("[1,9)k=v"),
    ),
    (
        RecoveryMode::AbsoluteConsistency,
        Change::Cut(101),
        Answer::Says(
            "append file 1, offset 61: no batch can be read there, and nothing may be cut off",
        ),
    ),
    (
        RecoveryMode::AbsoluteConsistency,
        Change::Flipped(39),
        Answer::Says(
            "append file 1, offset 33: no batch can be read there, and nothing may be cut off",
        ),
    ),
    (
        RecoveryMode::AbsoluteConsistency,
        Change::Without(&[2]),
        Answer::Says("append file 2: it is missing, files 1 and 3 are there"),
    ),
    // Cut off is what a crash can leave.
    (
        RecoveryMode::TolerateTornTail,
        Change::Flipped(39),
        Answer::Says(
            "append file 1, offset 33: no batch can be read there, but one stands behind it, at offset 61",
        ),
    ),
    // All is cut off, whatever follows.
    (
        RecoveryMode::TolerateTailCorruption,
        Change::Cut(101),
        Answer::Holds("[1,3)k=v"),
    ),
    (
        RecoveryMode::TolerateTailCorruption,
        Change::Flipped(39),
        Answer::Holds("[1,3)"),
    ),
    (
        RecoveryMode::TolerateTailCorruption,
        Change::Flipped(67),
        Answer::Holds("[1,3)k=v"),
    ),
    (
        RecoveryMode::TolerateTailCorruption,
        Change::Without(&[2]),
        Answer::Says("append file 2: it is missing, files 1 and 3 are there"),
    ),
];

/// Returns the rows of changed files, each with what an opening in its mode answers.
fn rows_of_modes() -> &'static [(RecoveryMode, Change, Answer)] {
    &ROWS_OF_MODES
}

/// Tests whether an opening returned `Corruption` with this text.
///
/// # Errors
///
/// That of the opening, unless it is `Corruption`.
pub fn is_corruption_with_text<T: Drop>(opened: Result<T>, text: &str) -> Result<bool> {
    match opened {
        Ok(_) => Ok(false),
        Err(Error::Corruption(found)) => Ok(found.as_str() == text),
        Err(e) => Err(e),
    }
}

/// Tests whether an opening returned `InvalidArgument` with this text.
///
/// # Errors
///
/// That of the opening, unless it is `InvalidArgument`.
pub fn is_invalid_argument_with_text<T: Drop>(opened: Result<T>, text: &str) -> Result<bool> {
    match opened {
        Ok(_) => Ok(false),
        Err(Error::InvalidArgument(found)) => Ok(found.as_str() == text),
        Err(e) => Err(e),
    }
}

/// Tests whether an engine that is opened over `files` holds `text`.
///
/// # Errors
///
/// Those of the opening; `Memory`.
fn does_open_with_text<R: Threads + Sync>(
    rt: &R,
    alloc: Global,
    files: LogFiles,
    text: &str,
) -> Result<bool> {
    let engine = open_copies(rt, alloc, files, Vec::new(alloc))?;
    has_text(alloc, &engine, text)
}

/// Tests whether an opening of the changed files of `row` gives what the row says.
///
/// # Errors
///
/// That of the opening, unless it is one that the row says; those of writing the files; `Memory`.
fn is_row_answered<R: Threads + Sync>(
    rt: &R,
    alloc: Global,
    row: &(Change, Answer),
) -> Result<bool> {
    let files = make_change(alloc, &row.0)?;
    match &row.1 {
        Answer::Holds(text) => does_open_with_text(rt, alloc, files, text),
        Answer::Says(text) => is_corruption_with_text(
            open_copies(rt, alloc, files, Vec::new(alloc)),
            text,
        ),
        Answer::Names(text) => is_invalid_argument_with_text(
            open_copies(rt, alloc, files, Vec::new(alloc)),
            text,
        ),
    }
}

/// Tests that found files are opened or refused, as their rows say.
#[test]
fn found_files_are_opened_or_refused(rt: HostRuntime) {
    for (i, row) in rows_of_changes().iter().enumerate() {
        assert!(rt; holds!(is_row_answered(&rt, rt.alloc(), row)), "row {i}");
    }
}

/// Opens an engine over append files in `mode`.
///
/// # Errors
///
/// Those of the opening; `Memory`.
fn open_engine_in_mode<R: Threads + Sync>(
    rt: &R,
    alloc: Global,
    mode: RecoveryMode,
    files: LogFiles,
) -> Result<Engine<MemoryFiles>> {
    let opened = open_in_mode(rt, alloc, mode, files, Vec::new(alloc))??;
    Ok(opened.engine)
}

/// Tests whether an engine that is opened over `files` in `mode` holds `text`.
///
/// # Errors
///
/// Those of the opening; `Memory`.
fn is_held_in_mode<R: Threads + Sync>(
    rt: &R,
    alloc: Global,
    mode: RecoveryMode,
    files: LogFiles,
    text: &str,
) -> Result<bool> {
    let engine = open_engine_in_mode(rt, alloc, mode, files)?;
    has_text(alloc, &engine, text)
}

/// Tests whether an opening of the changed files of `row`, in the row's mode, gives what the row says.
///
/// # Errors
///
/// That of the opening, unless it is one that the row says; those of writing the files; `Memory`.
fn is_row_answered_in_mode<R: Threads + Sync>(
    rt: &R,
    alloc: Global,
    row: &(RecoveryMode, Change, Answer),
) -> Result<bool> {
    let files = make_change(alloc, &row.1)?;
    match &row.2 {
        Answer::Holds(text) => is_held_in_mode(rt, alloc, row.0, files, text),
        Answer::Says(text) => is_corruption_with_text(
            open_engine_in_mode(rt, alloc, row.0, files),
            text,
        ),
        Answer::Names(text) => is_invalid_argument_with_text(
            open_engine_in_mode(rt, alloc, row.0, files),
            text,
        ),
    }
}

/// Tests that found files are opened or refused, as the mode of the opening says.
#[test]
fn found_files_are_opened_or_refused_as_the_mode_says(rt: HostRuntime) {
    for (i, row) in rows_of_modes().iter().enumerate() {
        assert!(rt;
            holds!(is_row_answered_in_mode(&rt, rt.alloc(), row)),
            "row {i}"
        );
    }
}
