//! Tests of an engine that is opened over what a crash left: what it cuts off, what it tells the rewrite queue, moves and
//! deletes.

use crate::batches::Part::{Clean, Compact, Delete, Entries, Put, Truncate};
use crate::batches::{Part, REGION};
use crate::calls::{
    LogFiles, copy_files, count_files, flip_bit_of_first_file, holds, is_corruption, new_engine,
    open_copies, purge_append_files, reopen_over_copies, rewrite_up_to, rotate, write_parts,
};
use crate::engine::Step::{Append, Purge, Rewrite};
use crate::engine::{Engine as Histories, table_text};
use raft_base::LogQueue;
use raft_engine::Engine;
use raft_files::MemoryFiles;
use raft_records::Result;
use std::alloc::Global;
use std::thread::Threads;

/// Tests whether the tables of the engine hold `text`. Errors: `Memory` alone.
pub fn has_text(alloc: Global, engine: &Engine<MemoryFiles>, text: &str) -> Result<bool> {
    Ok(table_text(alloc, engine.accessor().get(REGION))?.as_str() == text)
}

/// Batches that are written after [1,10) and `k=v` have moved to a rewrite file.
struct Change {
    /// The batches.
    batches: &'static [&'static [Part]],
    /// What they leave.
    left: &'static str,
    /// How many of two append files a purge leaves.
    files: usize,
}

static CHANGES: [Change; 10] = [
    Change {
        batches: &[&[Entries(5, 7)], &[Compact(7)]],
        left: "k=v",
        files: 1,
    },
    Change {
        batches: &[&[Entries(5, 7)], &[Compact(7)], &[Entries(8, 9)]],
        left: "[8,9)k=v",
        files: 2,
    },
    Change {
        batches: &[&[Clean]],
        left: "",
        files: 1,
    },
    Change {
        batches: &[&[Clean, Entries(1, 3)]],
        left: "[1,3)",
        files: 2,
    },
    Change {
        batches: &[&[Truncate(3)]],
        left: "[1,3)k=v",
        files: 1,
    },
    Change {
        batches: &[&[Compact(3)]],
        left: "[3,10)k=v",
        files: 1,
    },
    Change {
        batches: &[&[Delete]],
        left: "[1,10)",
        files: 1,
    },
    Change {
        batches: &[&[Delete, Put("w")]],
        left: "[1,10)k=w",
        files: 2,
    },
    Change {
        batches: &[&[Put("w")]],
        left: "[1,10)k=w",
        files: 2,
    },
    Change {
        batches: &[&[Entries(10, 12)]],
        left: "[1,12)k=v",
        files: 2,
    },
];

/// Opens an engine over files of both queues, in which [1,10) and `k=v` have moved to a rewrite file and their append file is
/// deleted. Errors: those of the store's steps and of the opening; `Memory`.
fn open_moved_files<R: Threads + Sync>(rt: &R, alloc: Global) -> Result<Engine<MemoryFiles>> {
    let mut store = Histories::new(alloc)?;
    open_moved_files_of(rt, alloc, &mut store)
}

/// Has `store` write [1,10) and `k=v`, move them, and delete their append file. Opens an engine over copies of its
/// files. Errors: those of the store's steps and of the opening; `Memory`.
fn open_moved_files_of<R: Threads + Sync>(
    rt: &R,
    alloc: Global,
    store: &mut Histories,
) -> Result<Engine<MemoryFiles>> {
    store.take_step(&Append(1, &[Entries(1, 10), Put("v")]))?;
    store.take_step(&Rewrite(1, Some(1), &[Entries(1, 10), Put("v")]))?;
    store.take_step(&Purge(LogQueue::Append, 1))?;
    let append = store.copy_files(LogQueue::Append)?;
    open_copies(rt, alloc, append, store.copy_files(LogQueue::Rewrite)?)
}

/// Makes an engine that wrote [1,10) and `k=v`, moved them to the rewrite queue, and deleted their append file. Errors:
/// those of the engine's calls; `Memory`.
pub fn engine_with_moved_records(alloc: Global) -> Result<Engine<MemoryFiles>> {
    engine_with_moved_parts(alloc, &[Entries(1, 10), Put("v")])
}

/// Makes an engine that wrote a batch of `parts`, moved its records to the rewrite queue, and deleted their append
/// file. Errors: those of the engine's calls; `Memory`.
pub fn engine_with_moved_parts(alloc: Global, parts: &[Part]) -> Result<Engine<MemoryFiles>> {
    let mut engine = new_engine(alloc)?;
    write_move_and_purge(alloc, &mut engine, parts)?;
    Ok(engine)
}

/// Writes a batch of `parts`, moves it to the rewrite queue, and deletes its append file. Errors: those of the engine's
/// calls; `Memory`.
fn write_move_and_purge(
    alloc: Global,
    engine: &mut Engine<MemoryFiles>,
    parts: &[Part],
) -> Result<()> {
    write_parts(alloc, engine, parts, false)?;
    rotate(engine)?;
    rewrite_up_to(engine, 1)?;
    purge_append_files(engine)?;
    Ok(())
}

/// Writes the batches of a change to the last append file, and begins the next one. Errors: those of the engine's
/// calls; `Memory`.
fn write_change(alloc: Global, engine: &mut Engine<MemoryFiles>, change: &Change) -> Result<()> {
    for parts in change.batches {
        write_parts(alloc, engine, parts, false)?;
    }
    rotate(engine)
}

/// Tests whether `engine` has `count` append files.
fn has_append_files(engine: &Engine<MemoryFiles>, count: usize) -> bool {
    count_files(engine, LogQueue::Append) == count
}

/// Tests whether an engine that is opened over copies of the files holds `text`. Errors: those of the opening;
/// `Memory`.
pub fn is_found_reopened<R: Threads + Sync>(
    rt: &R,
    alloc: Global,
    engine: &Engine<MemoryFiles>,
    text: &str,
) -> Result<bool> {
    let found = reopen_over_copies(rt, alloc, engine)?;
    has_text(alloc, &found, text)
}

/// Tests whether a purge leaves `files` of two append files. Errors: those of the engine's calls; `Memory`.
fn does_purge_leave(engine: &mut Engine<MemoryFiles>, files: usize) -> Result<bool> {
    let deleted = purge_append_files(engine)?;
    Ok(deleted.saturating_add(files) == 2 && has_append_files(engine, files))
}

/// Makes a change. Tests whether what it takes away stays away, and what it leaves stays: in restarts before and after a
/// purge, and in the engine. Errors: those of the engine's calls and of the opening; `Memory`.
fn does_change_stay<R: Threads + Sync>(
    rt: &R,
    alloc: Global,
    engine: &mut Engine<MemoryFiles>,
    change: &Change,
) -> Result<bool> {
    if !has_append_files(engine, 1) || !has_text(alloc, engine, "[1,10)k=v")? {
        return Ok(false);
    }
    write_change(alloc, engine, change)?;
    if !is_found_reopened(rt, alloc, engine, change.left)?
        || !does_purge_leave(engine, change.files)?
    {
        return Ok(false);
    }
    Ok(has_text(alloc, engine, change.left)? && is_found_reopened(rt, alloc, engine, change.left)?)
}

/// Tests whether `change` stays, made in an engine that found its records in files. Errors: those of the engine's calls
/// and of the opening; `Memory`.
fn does_change_of_found_stay<R: Threads + Sync>(
    rt: &R,
    alloc: Global,
    change: &Change,
) -> Result<bool> {
    let mut engine = open_moved_files(rt, alloc)?;
    does_change_stay(rt, alloc, &mut engine, change)
}

/// Tests whether `change` stays, made in an engine that moved its records. Errors: those of the engine's calls and of
/// the opening; `Memory`.
fn does_change_of_moved_stay<R: Threads + Sync>(
    rt: &R,
    alloc: Global,
    change: &Change,
) -> Result<bool> {
    let mut engine = engine_with_moved_records(alloc)?;
    does_change_stay(rt, alloc, &mut engine, change)
}

/// Tests whether what a change leaves stays, in an engine that found its records in files, and in one that moved them.
/// Errors: those of the engine's calls and of the opening; `Memory`.
fn does_change_stay_in_both<R: Threads + Sync>(
    rt: &R,
    alloc: Global,
    change: &Change,
) -> Result<bool> {
    Ok(
        does_change_of_found_stay(rt, alloc, change)?
            && does_change_of_moved_stay(rt, alloc, change)?,
    )
}

/// Tests that what each change takes away stays away, and what it leaves stays, after restarts and a purge.
#[test]
fn changes_stay_after_restarts_and_purges(rt: HostRuntime) {
    for (row, change) in CHANGES.iter().enumerate() {
        assert!(rt;
            holds!(does_change_stay_in_both(&rt, rt.alloc(), change)),
            "row {row}"
        );
    }
}

/// Batches that are written one after another.
static WRITES: [&[Part]; 4] = [
    &[Entries(1, 3)],
    &[Entries(3, 4), Put("v")],
    &[Entries(2, 3)],
    &[Delete],
];

/// An engine that wrote the batches of [`WRITES`] to its first append file.
#[derive(Drop)]
struct Prefixes {
    /// The engine.
    engine: Engine<MemoryFiles>,
    /// The length of the file in bytes after each batch.
    ends: Vec<usize>,
}

/// Returns an engine that wrote the batches of [`WRITES`], and where each of them ends in its file. Errors: those of
/// the engine's calls; `Memory`.
fn write_prefixes(alloc: Global) -> Result<Prefixes> {
    let mut engine = new_engine(alloc)?;
    let ends = write_each_and_measure(alloc, &mut engine)?;
    Ok(Prefixes { engine, ends })
}

/// Writes the batches of [`WRITES`]. Returns the length of the file in bytes after each. Errors: those of the engine's
/// calls; `Memory`.
fn write_each_and_measure(alloc: Global, engine: &mut Engine<MemoryFiles>) -> Result<Vec<usize>> {
    let mut ends = Vec::new(alloc);
    for parts in &WRITES {
        write_parts(alloc, engine, parts, false)?;
        ends.push(last_file_len(engine.files().files(LogQueue::Append)))?;
    }
    Ok(ends)
}

/// Returns the length of the last of `files` in bytes; 0 without files.
fn last_file_len(files: &LogFiles) -> usize {
    match files.last() {
        Some((_, bytes)) => bytes.len(),
        None => 0,
    }
}

/// Returns how many batches are whole in the first `len` bytes of the file.
fn count_whole_batches(fronts: &Prefixes, len: usize) -> usize {
    let mut count = 0usize;
    for end in &fronts.ends {
        if *end <= len {
            count = count.saturating_add(1);
        }
    }
    count
}

/// Returns the text of what the first `count` batches of [`WRITES`] leave.
fn text_left_by(count: usize) -> &'static str {
    match count {
        0 => "",
        1 => "[1,3)",
        2 => "[1,4)k=v",
        3 => "[1,3)k=v",
        _ => "[1,3)",
    }
}

/// Opens an engine over copies of the files, of which the append file is cut to `len` bytes. Errors: those of the
/// opening; `Memory`.
fn open_prefix<R: Threads + Sync>(
    rt: &R,
    alloc: Global,
    fronts: &Prefixes,
    len: usize,
) -> Result<Engine<MemoryFiles>> {
    let append = copy_prefix(&fronts.engine, len)?;
    open_copies(
        rt,
        alloc,
        append,
        copy_files(&fronts.engine, LogQueue::Rewrite)?,
    )
}

/// Returns copies of the append files, of which the last one is cut to `len` bytes. Errors: `Memory` alone.
fn copy_prefix(engine: &Engine<MemoryFiles>, len: usize) -> Result<LogFiles> {
    let mut append = copy_files(engine, LogQueue::Append)?;
    if let Some(last) = append.last_mut() {
        last.1.truncate(len);
    }
    Ok(append)
}

/// Replaces all that an engine holds by `k=x`, moves that to the rewrite queue, and purges the append files. Returns how many
/// files were deleted. Errors: those of the engine's calls; `Memory`.
fn replace_all_and_purge(alloc: Global, engine: &mut Engine<MemoryFiles>) -> Result<usize> {
    write_parts(alloc, engine, &[Clean, Put("x")], true)?;
    rotate(engine)?;
    rewrite_up_to(engine, u64::MAX)?;
    purge_append_files(engine)
}

/// Tests whether an engine that is opened over the first `len` bytes of the file holds what the whole batches leave, and goes
/// on. Errors: those of the engine's calls and of the opening; `Memory`.
fn is_prefix_found<R: Threads + Sync>(
    rt: &R,
    alloc: Global,
    fronts: &Prefixes,
    len: usize,
) -> Result<bool> {
    let mut engine = open_prefix(rt, alloc, fronts, len)?;
    does_engine_go_on(
        rt,
        alloc,
        &mut engine,
        text_left_by(count_whole_batches(fronts, len)),
    )
}

/// Tests whether `engine` holds `left`, replaces it, deletes one append file, and a restart finds what it wrote.
/// Errors: those of the engine's calls and of the opening; `Memory`.
fn does_engine_go_on<R: Threads + Sync>(
    rt: &R,
    alloc: Global,
    engine: &mut Engine<MemoryFiles>,
    left: &str,
) -> Result<bool> {
    if !has_text(alloc, engine, left)? || replace_all_and_purge(alloc, engine)? != 1 {
        return Ok(false);
    }
    is_found_reopened(rt, alloc, engine, "k=x")
}

/// Tests at each length of the file whether an engine over it holds what the whole batches leave. Errors: those of the
/// engine's calls and of the opening; `Memory`.
fn are_all_prefixes_found<R: Threads + Sync>(
    rt: &R,
    alloc: Global,
    fronts: &Prefixes,
) -> Result<bool> {
    for len in 0..last_file_len(fronts.engine.files().files(LogQueue::Append)).saturating_add(1) {
        if !is_prefix_found(rt, alloc, fronts, len)? {
            return Ok(false);
        }
    }
    Ok(true)
}

/// Tests at each length of a file of the batches of [`WRITES`] whether an engine over it holds what its whole batches
/// leave. Errors: those of the engine's calls and of the opening; `Memory`.
fn are_prefixes_of_file_found<R: Threads + Sync>(rt: &R, alloc: Global) -> Result<bool> {
    let fronts = write_prefixes(alloc)?;
    are_all_prefixes_found(rt, alloc, &fronts)
}

/// Tests that each prefix of an append file gives what its whole batches leave.
#[test]
fn each_prefix_of_a_file_is_found(rt: HostRuntime) {
    assert!(rt; holds!(are_prefixes_of_file_found(&rt, rt.alloc())));
}

/// Tests whether an opening refuses a file whose first batch is damaged. Errors: that of the opening, unless it is
/// `Corruption`; `Memory`.
fn is_damage_refused<R: Threads + Sync>(rt: &R, alloc: Global, fronts: &Prefixes) -> Result<bool> {
    let append = flip_bit_of_first_file(copy_files(&fronts.engine, LogQueue::Append)?, 24);
    is_corruption(open_copies(rt, alloc, append, Vec::new(alloc)))
}

/// Tests whether an opening refuses files with the same number twice. Errors: that of the opening, unless it is
/// `Corruption`; `Memory`.
fn are_equal_numbers_refused<R: Threads + Sync>(
    rt: &R,
    alloc: Global,
    fronts: &Prefixes,
) -> Result<bool> {
    let mut append = copy_files(&fronts.engine, LogQueue::Append)?;
    append.push((1, Vec::new(alloc)))?;
    is_corruption(open_copies(rt, alloc, append, Vec::new(alloc)))
}

/// Tests whether a damaged first batch and equal file numbers are refused. Errors: that of an opening, unless it is
/// `Corruption`; `Memory`.
fn are_both_refused<R: Threads + Sync>(rt: &R, alloc: Global, fronts: &Prefixes) -> Result<bool> {
    Ok(is_damage_refused(rt, alloc, fronts)? && are_equal_numbers_refused(rt, alloc, fronts)?)
}

/// Tests whether openings refuse a file of [`WRITES`] whose first batch is damaged, and two files of one number. Errors:
/// that of an opening, unless it is `Corruption`; those of writing the file; `Memory`.
fn is_damage_or_equal_number_refused<R: Threads + Sync>(rt: &R, alloc: Global) -> Result<bool> {
    let fronts = write_prefixes(alloc)?;
    are_both_refused(rt, alloc, &fronts)
}

/// Tests that an opening refuses files that no crash leaves.
#[test]
fn what_no_crash_leaves_is_refused(rt: HostRuntime) {
    assert!(rt; holds!(is_damage_or_equal_number_refused(&rt, rt.alloc())));
}
