//! Tests of what the rewrite queue is told, by a batch of commands and deletions, of what append files take away of rewritten
//! records. An opening of files that engines wrote tells nothing; it is told before an append file is deleted. Where appended
//! entries don't join rewritten ones, the opening tells it at once.

use crate::batches::Part;
use crate::batches::Part::{Clean, Compact, Delete, Entries, Put, Truncate};
use crate::calls::{
    LogFiles, copy_files, holds, new_engine, open_copies, purge_append_files, reopen_over_copies,
    rotate, write_parts,
};
use crate::reopened::{engine_with_moved_parts, engine_with_moved_records, has_text};
use raft_base::LogQueue;
use raft_engine::Engine;
use raft_files::MemoryFiles;
use raft_records::Result;
use std::alloc::Global;
use std::thread::Threads;

/// A batch that is written after [1,10) and `k=v` have moved to a rewrite file, and that adds no record that is left.
struct Removal {
    /// The batch.
    batch: &'static [Part],
    /// What it leaves.
    left: &'static str,
    /// Whether it takes something away of the rewrite file, so that the rewrite queue is told before the append file goes.
    is_told: bool,
}

static REMOVALS: [Removal; 7] = [
    Removal {
        batch: &[Compact(3)],
        left: "[3,10)k=v",
        is_told: true,
    },
    Removal {
        batch: &[Compact(1)],
        left: "[1,10)k=v",
        is_told: false,
    },
    Removal {
        batch: &[Truncate(3)],
        left: "[1,3)k=v",
        is_told: true,
    },
    Removal {
        batch: &[Truncate(10)],
        left: "[1,10)k=v",
        is_told: false,
    },
    Removal {
        batch: &[Delete],
        left: "[1,10)",
        is_told: true,
    },
    Removal {
        batch: &[Entries(10, 12), Truncate(10)],
        left: "[1,10)k=v",
        is_told: false,
    },
    Removal {
        batch: &[Clean],
        left: "",
        is_told: true,
    },
];

/// Tests whether two lists of files have the same numbers and the same bytes.
fn have_same_bytes(some: &LogFiles, others: &LogFiles) -> bool {
    if some.len() != others.len() {
        return false;
    }
    for (one, other) in some.iter().zip(others.iter()) {
        if one.0 != other.0 || one.1.as_slice() != other.1.as_slice() {
            return false;
        }
    }
    true
}

/// Tests whether two engines have the same files of `queue`.
///
/// # Errors
///
/// `Memory` alone.
fn has_same_files_in_queue(
    engine: &Engine<MemoryFiles>,
    other: &Engine<MemoryFiles>,
    queue: LogQueue,
) -> Result<bool> {
    Ok(have_same_bytes(&copy_files(engine, queue)?, &copy_files(other, queue)?))
}

/// Tests whether two engines have the same files in both queues.
///
/// # Errors
///
/// `Memory` alone.
fn have_same_files(engine: &Engine<MemoryFiles>, other: &Engine<MemoryFiles>) -> Result<bool> {
    Ok(
        has_same_files_in_queue(engine, other, LogQueue::Append)?
            && has_same_files_in_queue(engine, other, LogQueue::Rewrite)?,
    )
}

/// Tests whether an engine that is opened over copies of the files holds `left`, and has asked for no change of these files.
///
/// # Errors
///
/// Those of the opening; `Memory`.
fn is_opened_unchanged<R: Threads + Sync>(
    rt: &R,
    alloc: Global,
    engine: &Engine<MemoryFiles>,
    left: &str,
) -> Result<bool> {
    let opened = reopen_over_copies(rt, alloc, engine)?;
    Ok(have_same_files(&opened, engine)? && has_text(alloc, &opened, left)?)
}

/// Opens an engine over copies of the files, and purges its append files. Tests whether that tells the rewrite queue what the
/// removal says, and a further opening tells nothing more.
///
/// # Errors
///
/// Those of the engine's calls and of the opening; `Memory`.
fn is_removal_told_by_purge<R: Threads + Sync>(
    rt: &R,
    alloc: Global,
    engine: &Engine<MemoryFiles>,
    removal: &Removal,
) -> Result<bool> {
    let mut opened = reopen_over_copies(rt, alloc, engine)?;
    is_removal_told_in(rt, alloc, &mut opened, engine, removal)
}

/// Begins an append file of `opened`, and purges. Tests whether one file is deleted, the rewrite queue has been told,
/// and a restart finds what `removal` leaves.
///
/// # Errors
///
/// Those of the engine's calls and of the opening; `Memory`.
fn is_removal_told_in<R: Threads + Sync>(
    rt: &R,
    alloc: Global,
    opened: &mut Engine<MemoryFiles>,
    engine: &Engine<MemoryFiles>,
    removal: &Removal,
) -> Result<bool> {
    rotate(opened)?;
    let deleted = purge_append_files(opened)?;
    let is_told = !has_same_files_in_queue(opened, engine, LogQueue::Rewrite)?;
    Ok(
        deleted == 1
            && is_told == removal.is_told
            && is_opened_unchanged(rt, alloc, opened, removal.left)?,
    )
}

/// Tests whether an opening of files to which the batch of `removal` was written changes nothing, and a purge then tells
/// the rewrite queue what the removal says.
///
/// # Errors
///
/// Those of the engine's calls and of the opening; `Memory`.
fn is_removal_told_later<R: Threads + Sync>(
    rt: &R,
    alloc: Global,
    removal: &Removal,
) -> Result<bool> {
    let mut engine = engine_with_moved_records(alloc)?;
    is_removal_told_later_in(rt, alloc, &mut engine, removal)
}

/// Writes the batch of `removal`. Tests whether an opening changes nothing, and a purge tells the rewrite queue.
///
/// # Errors
///
/// Those of the engine's calls and of the opening; `Memory`.
fn is_removal_told_later_in<R: Threads + Sync>(
    rt: &R,
    alloc: Global,
    engine: &mut Engine<MemoryFiles>,
    removal: &Removal,
) -> Result<bool> {
    write_parts(alloc, engine, removal.batch, true)?;
    Ok(
        is_opened_unchanged(rt, alloc, engine, removal.left)?
            && is_removal_told_by_purge(rt, alloc, engine, removal)?,
    )
}

/// Tests that an opening asks for no change of the files, and that a purge tells the rewrite queue what was taken
/// away.
#[test]
fn an_opening_leaves_files_as_they_were(rt: HostRuntime) {
    for (row, removal) in REMOVALS.iter().enumerate() {
        assert!(rt;
            holds!(is_removal_told_later(&rt, rt.alloc(), removal)),
            "row {row}"
        );
    }
}

/// Tests whether an empty rewrite queue is told nothing of what the append queue takes away.
///
/// # Errors
///
/// Those of the engine's calls and of the opening; `Memory`.
fn is_empty_queue_told_nothing<R: Threads + Sync>(rt: &R, alloc: Global) -> Result<bool> {
    let mut engine = new_engine(alloc)?;
    is_empty_queue_told_nothing_in(rt, alloc, &mut engine)
}

/// Writes records and a `Clean` to `engine`. Tests whether a purge of an engine over its files tells nothing.
///
/// # Errors
///
/// Those of the engine's calls and of the opening; `Memory`.
fn is_empty_queue_told_nothing_in<R: Threads + Sync>(
    rt: &R,
    alloc: Global,
    engine: &mut Engine<MemoryFiles>,
) -> Result<bool> {
    write_parts(alloc, engine, &[Entries(1, 10), Put("v")], true)?;
    write_parts(alloc, engine, &[Clean], true)?;
    let mut opened = reopen_over_copies(rt, alloc, engine)?;
    does_purge_tell_nothing(&mut opened, engine)
}

/// Begins an append file of `opened`, and purges. Tests whether one file is deleted, and the rewrite queue is as that
/// of `engine`.
///
/// # Errors
///
/// Those of the engine's calls; `Memory`.
fn does_purge_tell_nothing(
    opened: &mut Engine<MemoryFiles>,
    engine: &Engine<MemoryFiles>,
) -> Result<bool> {
    rotate(opened)?;
    Ok(
        purge_append_files(opened)? == 1
            && has_same_files_in_queue(opened, engine, LogQueue::Rewrite)?,
    )
}

/// Tests that a rewrite queue without records isn't told what the append queue takes away.
#[test]
fn an_empty_rewrite_queue_is_told_nothing(rt: HostRuntime) {
    assert!(rt; holds!(is_empty_queue_told_nothing(&rt, rt.alloc())));
}

/// Tests whether an opening tells the rewrite queue at once that its entries are dropped, if the appended ones begin after a
/// hole; and whether a further opening tells nothing more.
///
/// # Errors
///
/// Those of the engine's calls and of the opening; `Memory`.
fn is_dropped_prefix_told_at_once<R: Threads + Sync>(rt: &R, alloc: Global) -> Result<bool> {
    let rewritten = engine_with_moved_parts(alloc, &[Entries(1, 5)])?;
    let rewrite = copy_files(&rewritten, LogQueue::Rewrite)?;
    let mut appended = new_engine(alloc)?;
    let append = files_appended_behind_hole(alloc, &mut appended)?;
    let opened = open_copies(rt, alloc, append, rewrite)?;
    is_hole_told(rt, alloc, &opened, &rewritten)
}

/// Writes [10,12), and returns a copy of the append files.
///
/// # Errors
///
/// Those of the engine's calls; `Memory`.
fn files_appended_behind_hole(alloc: Global, engine: &mut Engine<MemoryFiles>) -> Result<LogFiles> {
    write_parts(alloc, engine, &[Entries(10, 12)], true)?;
    copy_files(engine, LogQueue::Append)
}

/// Tests whether `opened` has told its rewrite queue more than `rewritten` had, and holds [10,12), and a further
/// opening changes nothing.
///
/// # Errors
///
/// Those of the opening; `Memory`.
fn is_hole_told<R: Threads + Sync>(
    rt: &R,
    alloc: Global,
    opened: &Engine<MemoryFiles>,
    rewritten: &Engine<MemoryFiles>,
) -> Result<bool> {
    Ok(
        !has_same_files_in_queue(opened, rewritten, LogQueue::Rewrite)?
            && has_text(alloc, opened, "[10,12)")?
            && is_opened_unchanged(rt, alloc, opened, "[10,12)")?,
    )
}

/// Tests that an opening tells the rewrite queue at once that its entries are dropped by those behind a hole.
#[test]
fn dropped_entries_before_a_hole_are_told_at_once(rt: HostRuntime) {
    assert!(rt; holds!(is_dropped_prefix_told_at_once(&rt, rt.alloc())));
}
