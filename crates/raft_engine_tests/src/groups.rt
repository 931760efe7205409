//! Tests of atomic groups in found rewrite files. A whole group takes effect; one that is still open, or that was begun anew,
//! doesn't. A group that doesn't stand in a row, in one file, is refused.

use crate::again::{is_found_after_moves_and_purges, move_and_purge_append_files};
use crate::batches::Part::{Begin, Clean, Compact, End, Entries, Middle, Put};
use crate::batches::{Part, batch_of_parts, bytes_signed_for};
use crate::calls::{
    LogFiles, count_files, holds, is_invalid_argument, open_copies, purge_rewrite_files,
    rewrite_again, write_parts,
};
use crate::reopened::{has_text, is_found_reopened};
use raft_base::{FileId, FileSeq, LogQueue};
use raft_engine::Engine;
use raft_files::MemoryFiles;
use raft_records::Result;
use std::alloc::Global;
use std::thread::Threads;

/// Rewrite files: of each file the batches, and of each batch the items.
type Batches = &'static [&'static [&'static [Part]]];

/// Returns the bytes of a batch that is signed for rewrite file `seq`.
///
/// # Errors
///
/// Those of making and signing the batch; `Memory`.
fn signed_batch_bytes(alloc: Global, seq: FileSeq, parts: &[Part]) -> Result<Vec<u8>> {
    let batch = batch_of_parts(alloc, parts)?;
    bytes_signed_for(alloc, batch, FileId::new(LogQueue::Rewrite, seq))
}

/// Returns rewrite files with these batches, numbered from 1 on.
///
/// # Errors
///
/// Those of making and signing the batches; `Memory`.
fn files_with_batches(alloc: Global, files: Batches) -> Result<LogFiles> {
    let mut made = Vec::new(alloc);
    let mut seq = 1;
    for batches in files {
        made.push((seq, file_bytes_with_batches(alloc, seq, *batches)?))?;
        seq = seq.saturating_add(1);
    }
    Ok(made)
}

/// Returns the bytes of rewrite file `seq` with these batches.
///
/// # Errors
///
/// Those of making and signing the batches; `Memory`.
fn file_bytes_with_batches(alloc: Global, seq: FileSeq, batches: &[&[Part]]) -> Result<Vec<u8>> {
    let mut bytes = Vec::new(alloc);
    for parts in batches {
        bytes.extend_from_slice(signed_batch_bytes(alloc, seq, *parts)?.as_slice())?;
    }
    Ok(bytes)
}

/// Rewrite files of which each group stands in a row, and what they hold.
static ROWS: [(Batches, &str); 7] = [
    (
        &[&[
            &[Begin(7), Entries(1, 3)],
            &[End(7), Entries(3, 5), Put("v")],
        ]],
        "[1,5)k=v",
    ),
    (
        &[&[
            &[Begin(7), Entries(1, 2)],
            &[Middle(7), Entries(2, 3)],
            &[End(7), Entries(3, 4)],
        ]],
        "[1,4)",
    ),
    (&[&[&[Entries(1, 3)], &[Begin(7), Entries(3, 5)]]], "[1,3)"),
    (
        &[
            &[&[Entries(1, 3)], &[Begin(7), Clean], &[Middle(7), Put("v")]],
            &[&[Entries(3, 5)]],
        ],
        "[1,5)",
    ),
    (
        &[&[
            &[Begin(7), Entries(4, 9)],
            &[Begin(7), Entries(1, 2)],
            &[End(7), Entries(2, 4)],
        ]],
        "[1,4)",
    ),
    (
        &[&[
            &[Begin(7), Entries(1, 3)],
            &[End(7), Put("v")],
            &[Begin(8), Entries(1, 3)],
            &[End(8), Put("w")],
        ]],
        "[1,3)k=w",
    ),
    (
        &[
            &[&[Entries(1, 5), Put("v")]],
            &[&[Begin(9), Entries(1, 3)], &[End(9), Entries(3, 5)]],
        ],
        "[1,5)k=v",
    ),
];

/// Rewrite files with a group that doesn't stand in a row, in one file.
static OUT: [Batches; 6] = [
    &[&[&[End(7), Entries(1, 3)]]],
    &[&[&[Middle(7), Entries(1, 3)], &[End(7)]]],
    &[&[&[Begin(7), Entries(1, 3)]], &[&[End(7), Entries(3, 5)]]],
    &[&[
        &[Begin(7), Entries(1, 3)],
        &[Put("v")],
        &[End(7), Entries(3, 5)],
    ]],
    &[&[
        &[Begin(7), Entries(1, 3)],
        &[Begin(8)],
        &[End(7), Entries(3, 5)],
    ]],
    &[&[
        &[Begin(7), Entries(1, 3)],
        &[End(7), Entries(3, 5)],
        &[End(7), Put("v")],
    ]],
];

/// Opens an engine over rewrite files alone.
///
/// # Errors
///
/// Those of the opening; `Memory`.
fn open_rewrite_files<R: Threads + Sync>(
    rt: &R,
    alloc: Global,
    files: Batches,
) -> Result<Engine<MemoryFiles>> {
    open_copies(
        rt,
        alloc,
        Vec::new(alloc),
        files_with_batches(alloc, files)?,
    )
}

/// Moves all records of the rewrite files to a new one, and purges the older ones. Returns whether one rewrite file is left.
///
/// # Errors
///
/// Those of the engine's calls; `Memory`.
fn move_and_purge(engine: &mut Engine<MemoryFiles>) -> Result<bool> {
    rewrite_again(engine)?;
    purge_rewrite_files(engine)?;
    Ok(count_files(engine, LogQueue::Rewrite) == 1)
}

/// Tests whether an engine that is opened over these rewrite files holds `left`, and a restart finds it too, also after a move
/// and a purge; and whether the engine goes on then.
///
/// # Errors
///
/// Those of the engine's calls and of the opening; `Memory`.
fn are_groups_held<R: Threads + Sync>(
    rt: &R,
    alloc: Global,
    files: Batches,
    left: &str,
) -> Result<bool> {
    let mut engine = open_rewrite_files(rt, alloc, files)?;
    is_text_held(rt, alloc, &mut engine, left)
}

/// Tests whether `engine` holds `left`, and restarts find it: at once, after a move and a purge, and after one more
/// write.
///
/// # Errors
///
/// Those of the engine's calls and of the opening; `Memory`.
fn is_text_held<R: Threads + Sync>(
    rt: &R,
    alloc: Global,
    engine: &mut Engine<MemoryFiles>,
    left: &str,
) -> Result<bool> {
    if !has_text(alloc, engine, left)? || !is_found_reopened(rt, alloc, engine, left)? {
        return Ok(false);
    }
    if !move_and_purge(engine)? || !is_found_reopened(rt, alloc, engine, left)? {
        return Ok(false);
    }
    write_parts(alloc, engine, &[Clean, Entries(2, 4)], false)?;
    Ok(
        move_and_purge_append_files(engine)?
            && is_found_after_moves_and_purges(rt, alloc, engine, "[2,4)")?,
    )
}

/// Tests that groups whose batches follow one another are found, and stay when they move.
#[test]
fn whole_groups_are_found(rt: HostRuntime) {
    for (row, (files, left)) in ROWS.iter().enumerate() {
        assert!(rt;
            holds!(are_groups_held(&rt, rt.alloc(), *files, left)),
            "row {row}"
        );
    }
}

/// Tests whether an opening refuses these rewrite files with `InvalidArgument`.
///
/// # Errors
///
/// That of the opening, unless it is `InvalidArgument`; `Memory`.
fn are_rewrite_files_refused<R: Threads + Sync>(
    rt: &R,
    alloc: Global,
    files: Batches,
) -> Result<bool> {
    is_invalid_argument(open_rewrite_files(rt, alloc, files))
}

/// Tests that rewrite files are refused in which the batches of a group don't follow one another.
#[test]
fn interleaved_groups_are_refused(rt: HostRuntime) {
    for (row, files) in OUT.iter().enumerate() {
        assert!(rt;
            holds!(are_rewrite_files_refused(&rt, rt.alloc(), *files)),
            "row {row}"
        );
    }
}

/// The batches of a rewrite file, in order, and what the file holds up to the end of each: a group of three batches among
/// others.
static PREFIX_ROWS: [(&[Part], &str); 6] = [
    (&[Entries(1, 3), Put("v")], "[1,3)k=v"),
    (&[Compact(2)], "[2,3)k=v"),
    (&[Begin(7), Entries(2, 3)], "[2,3)k=v"),
    (&[Middle(7), Entries(3, 5)], "[2,3)k=v"),
    (&[End(7), Put("w")], "[2,5)k=w"),
    (&[Begin(8), Clean], "[2,5)k=w"),
];

/// Tests whether an engine that is opened over a rewrite file of these bytes holds `left`, can move its records to a new file
/// and delete the old one, and a restart finds `left` then. The bytes may end in the midst of a batch.
///
/// # Errors
///
/// Those of the engine's calls and of the opening; `Memory`.
fn is_prefix_held<R: Threads + Sync>(
    rt: &R,
    alloc: Global,
    bytes: &[u8],
    left: &str,
) -> Result<bool> {
    let mut engine = open_file_of_bytes(rt, alloc, bytes)?;
    does_engine_go_on(rt, alloc, &mut engine, left)
}

/// Opens an engine over a rewrite file of these bytes.
///
/// # Errors
///
/// Those of the opening; `Memory`.
fn open_file_of_bytes<R: Threads + Sync>(
    rt: &R,
    alloc: Global,
    bytes: &[u8],
) -> Result<Engine<MemoryFiles>> {
    let bytes = Vec::from_slice(alloc, bytes)?;
    open_copies(rt, alloc, Vec::new(alloc), vec![in alloc; (1, bytes)]?)
}

/// Tests whether `engine` holds `left`, moves and purges, and a restart finds `left` then.
///
/// # Errors
///
/// Those of the engine's calls and of the opening; `Memory`.
fn does_engine_go_on<R: Threads + Sync>(
    rt: &R,
    alloc: Global,
    engine: &mut Engine<MemoryFiles>,
    left: &str,
) -> Result<bool> {
    Ok(
        has_text(alloc, engine, left)?
            && move_and_purge(engine)?
            && is_found_reopened(rt, alloc, engine, left)?,
    )
}

/// Appends the bytes `next`, which are a batch, to `bytes`, one after another. Tests before each of them whether an engine
/// over the bytes so far holds `left`.
///
/// # Errors
///
/// Those of the engine's calls and of the opening; `Memory`. `bytes` then has what was appended so far.
fn is_each_prefix_held<R: Threads + Sync>(
    rt: &R,
    alloc: Global,
    bytes: &mut Vec<u8>,
    next: &[u8],
    left: &str,
) -> Result<bool> {
    for byte in next {
        if !is_prefix_held(rt, alloc, bytes.as_slice(), left)? {
            return Ok(false);
        }
        bytes.push(*byte)?;
    }
    Ok(true)
}

/// Appends the batches of [`PREFIX_ROWS`] to `bytes`. Tests at each length of the file whether an engine over it holds what the
/// whole batches leave.
///
/// # Errors
///
/// Those of the engine's calls and of the opening; `Memory`.
fn are_prefixes_of_batches_held<R: Threads + Sync>(
    rt: &R,
    alloc: Global,
    bytes: &mut Vec<u8>,
) -> Result<bool> {
    let mut left = "";
    for (parts, next) in &PREFIX_ROWS {
        let batch = signed_batch_bytes(alloc, 1, parts)?;
        if !is_each_prefix_held(rt, alloc, bytes, batch.as_slice(), left)? {
            return Ok(false);
        }
        left = next;
    }
    is_prefix_held(rt, alloc, bytes.as_slice(), left)
}

/// Tests at each length of a file of the batches of [`PREFIX_ROWS`] whether an engine over it holds what the whole batches leave.
///
/// # Errors
///
/// Those of the engine's calls and of the opening; `Memory`.
fn are_all_prefixes_held<R: Threads + Sync>(rt: &R, alloc: Global) -> Result<bool> {
    let mut bytes = Vec::new(alloc);
    are_prefixes_of_batches_held(rt, alloc, &mut bytes)
}

/// Tests that each prefix of a rewrite file with groups gives what its whole batches leave.
#[test]
fn prefixes_of_groups_are_found(rt: HostRuntime) {
    assert!(rt; holds!(are_all_prefixes_held(&rt, rt.alloc())));
}
