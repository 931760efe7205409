//! Tests of damaged entries in found files. In the last rewrite file they refuse the opening; in the last append file the
//! opening names their batches; in any file the read of such an entry is refused.

use crate::calls::{LogFiles, are_batches_named, flip_bit_of_first_file, holds, open_in_mode};
use crate::found::{
    Answer, file_of_three_batches, four_files_of_a_batch, is_corruption_with_text,
    is_invalid_argument_with_text,
};
use crate::reopened::has_text;
use raft_engine::{Opened, RecoveryMode};
use raft_files::MemoryFiles;
use raft_records::Result;
use std::alloc::Global;
use std::thread::Threads;

/// The files of which a byte is changed.
enum Files {
    /// One append file.
    Append,
    /// The first of four append files.
    ClosedAppend,
    /// One rewrite file.
    LastRewrite,
    /// The first of four rewrite files.
    ClosedRewrite,
}

/// The files and the position of the byte of the first one whose lowest bit is changed; what an opening answers in each mode;
/// and the offsets of the batches that it names.
type Row = (Files, usize, Answer, &'static [u64]);

static ROWS: [Row; 8] = [
    // The first entry of the first batch, and the checksum of its entries.
    (
        Files::LastRewrite,
        16,
        Answer::Says("rewrite file 1, offset 0: the entries of this batch are damaged"),
        &[],
    ),
    (
        Files::LastRewrite,
        18,
        Answer::Says("rewrite file 1, offset 0: the entries of this batch are damaged"),
        &[],
    ),
    // The last entry of the last batch.
    (
        Files::LastRewrite,
        82,
        Answer::Says("rewrite file 1, offset 61: the entries of this batch are damaged"),
        &[],
    ),
    // Entries of other files are refused when they are read.
    (Files::Append, 16, Answer::Holds("[1,9)k=v"), &[0]),
    (Files::Append, 18, Answer::Holds("[1,9)k=v"), &[0]),
    (Files::Append, 82, Answer::Holds("[1,9)k=v"), &[61]),
    (Files::ClosedAppend, 16, Answer::Holds("[1,12)k=v"), &[]),
    (Files::ClosedRewrite, 16, Answer::Holds("[1,12)k=v"), &[]),
];

/// Returns the rows of damaged files, each with what an opening answers.
fn rows_of_damage() -> &'static [Row] {
    &ROWS
}

/// Opens an engine over the changed files of a row in a mode.
///
/// # Errors
///
/// Those of the opening; `Memory`.
fn open_changed_files<R: Threads + Sync>(
    rt: &R,
    alloc: Global,
    mode: RecoveryMode,
    row: &Row,
) -> Result<Opened<MemoryFiles>> {
    let none = Vec::new(alloc);
    let (append, rewrite): (LogFiles, LogFiles) = match row.0 {
        Files::Append => (
            flip_bit_of_first_file(file_of_three_batches(alloc)?, row.1),
            none,
        ),
        Files::ClosedAppend => (
            flip_bit_of_first_file(four_files_of_a_batch(alloc)?, row.1),
            none,
        ),
        Files::LastRewrite => (
            none,
            flip_bit_of_first_file(file_of_three_batches(alloc)?, row.1),
        ),
        Files::ClosedRewrite => (
            none,
            flip_bit_of_first_file(four_files_of_a_batch(alloc)?, row.1),
        ),
    };
    Ok(open_in_mode(rt, alloc, mode, append, rewrite)??)
}

/// Tests whether the opened engine holds `text`, and the opening named the batches at the offsets `named`.
///
/// # Errors
///
/// That of `opened`; `Memory`.
fn holds_text_and_names_batches(
    alloc: Global,
    opened: Result<Opened<MemoryFiles>>,
    text: &str,
    named: &[u64],
) -> Result<bool> {
    let opened = opened?;
    Ok(
        are_batches_named(opened.damaged.as_slice(), named)
            && has_text(alloc, &opened.engine, text)?,
    )
}

/// Tests whether an opening of the files of `row` in `mode` gives what the row says.
///
/// # Errors
///
/// That of the opening, unless it is one that the row says; `Memory`.
fn is_row_answered<R: Threads + Sync>(
    rt: &R,
    alloc: Global,
    mode: RecoveryMode,
    row: &Row,
) -> Result<bool> {
    let opened = open_changed_files(rt, alloc, mode, row);
    match &row.2 {
        Answer::Holds(text) => holds_text_and_names_batches(alloc, opened, text, row.3),
        Answer::Says(text) => is_corruption_with_text(opened, text),
        Answer::Names(text) => is_invalid_argument_with_text(opened, text),
    }
}

/// Tests what openings in three modes answer if entries of the last file are damaged.
#[test]
fn damaged_entries_of_last_files_are_refused_or_named_in_each_mode(rt: HostRuntime) {
    for (i, row) in rows_of_damage().iter().enumerate() {
        for mode in [
            RecoveryMode::AbsoluteConsistency,
            RecoveryMode::TolerateTornTail,
            RecoveryMode::TolerateTailCorruption,
        ] {
            assert!(rt;
                holds!(is_row_answered(&rt, rt.alloc(), mode, row)),
                "row {i}"
            );
        }
    }
}
