//! Tests of restarts of an engine: what was written is found again, each time, and what was taken away isn't. The law that
//! says what a restart finds is cited too, in a function of its own, so that it makes no other proof dear.

use crate::again::move_and_purge_append_files;
use crate::batches::Part;
use crate::batches::Part::{Clean, Compact, Delete, Entries, Put, Truncate};
use crate::calls::{
    holds, new_engine, purge_append_files, reopen_over_copies, rotate, write_parts,
};
use crate::reopened::{engine_with_moved_parts, has_text, is_found_reopened};
use raft_engine::Engine;
use raft_files::MemoryFiles;
use raft_records::Result;
use std::alloc::Global;
use std::thread::Threads;

/// Cites the law that says what an opening of the files of `engine` gives.
fn cite_law_of_opening(engine: &Engine<MemoryFiles>) {
    engine.what_is_left_is_opened();
}

/// Opens an engine over copies of the files of another one, and cites the law that says what is found then.
///
/// # Errors
///
/// Those of the opening; `Memory`.
fn reopen_and_cite_law<R: Threads + Sync>(
    rt: &R,
    alloc: Global,
    engine: &Engine<MemoryFiles>,
) -> Result<Engine<MemoryFiles>> {
    cite_law_of_opening(engine);
    reopen_over_copies(rt, alloc, engine)
}

/// Tests whether each of two restarts has what was written before it, also what was written after the first restart.
///
/// # Errors
///
/// Those of the engine's calls and of the opening; `Memory`.
fn do_restarts_find_all<R: Threads + Sync>(rt: &R, alloc: Global) -> Result<bool> {
    let mut engine = new_engine(alloc)?;
    write_parts(alloc, &mut engine, &[Entries(1, 6), Put("v")], true)?;
    is_all_found_by_first(rt, alloc, &engine)
}

/// Tests whether `engine` holds what was written before its own opening, and so do the two restarts after it.
///
/// # Errors
///
/// Those of the engine's calls and of the opening; `Memory`.
fn is_all_found_by_first<R: Threads + Sync>(
    rt: &R,
    alloc: Global,
    engine: &Engine<MemoryFiles>,
) -> Result<bool> {
    Ok(is_all_found_by_second(rt, alloc, engine)? && has_text(alloc, engine, "[1,6)k=v")?)
}

/// Opens the files of `engine` again, writes a batch, and tests whether one more restart finds all.
///
/// # Errors
///
/// Those of the engine's calls and of the opening; `Memory`.
fn is_all_found_by_second<R: Threads + Sync>(
    rt: &R,
    alloc: Global,
    engine: &Engine<MemoryFiles>,
) -> Result<bool> {
    let mut second = reopen_and_cite_law(rt, alloc, engine)?;
    write_parts(alloc, &mut second, &[Compact(3), Put("w")], true)?;
    is_all_found_by_third(rt, alloc, &second)
}

/// Tests whether a restart of the files of `second` finds what both wrote.
///
/// # Errors
///
/// Those of the engine's calls and of the opening; `Memory`.
fn is_all_found_by_third<R: Threads + Sync>(
    rt: &R,
    alloc: Global,
    second: &Engine<MemoryFiles>,
) -> Result<bool> {
    let third = reopen_and_cite_law(rt, alloc, second)?;
    cite_law_of_opening(&third);
    has_text(alloc, &third, "[3,6)k=w")
}

/// Tests that each restart finds all that was written before it.
#[test]
fn each_restart_finds_all(rt: HostRuntime) {
    assert!(rt; holds!(do_restarts_find_all(&rt, rt.alloc())));
}

/// Batches that take something away of records that have moved to a rewrite file.
struct Removal {
    /// The records in the rewrite file.
    moved: &'static [Part],
    /// The batches, in the last append file.
    batches: &'static [&'static [Part]],
    /// What is left of the records, and of what the batches add.
    left: &'static str,
    /// How many append files a purge deletes: the one with the batches, if it has nothing that is left.
    deleted: usize,
}

static REMOVALS: [Removal; 8] = [
    Removal {
        moved: &[Put("v")],
        batches: &[&[Delete]],
        left: "",
        deleted: 1,
    },
    // A key that is put again: what is told of it has to stand before its rewriting.
    Removal {
        moved: &[Put("v")],
        batches: &[&[Delete], &[Put("w")]],
        left: "k=w",
        deleted: 0,
    },
    Removal {
        moved: &[Entries(1, 10)],
        batches: &[&[Entries(5, 7)], &[Compact(7)]],
        left: "",
        deleted: 1,
    },
    // The entry that is written last is left, and so is its file.
    Removal {
        moved: &[Entries(1, 10)],
        batches: &[&[Entries(5, 7)], &[Compact(7)], &[Entries(8, 9)]],
        left: "[8,9)",
        deleted: 0,
    },
    Removal {
        moved: &[Entries(1, 10)],
        batches: &[&[Compact(3)]],
        left: "[3,10)",
        deleted: 1,
    },
    Removal {
        moved: &[Entries(1, 10)],
        batches: &[&[Truncate(3)]],
        left: "[1,3)",
        deleted: 1,
    },
    Removal {
        moved: &[Entries(1, 10), Put("v")],
        batches: &[&[Clean]],
        left: "",
        deleted: 1,
    },
    Removal {
        moved: &[Entries(1, 10), Put("v")],
        batches: &[&[Delete], &[Put("w")], &[Clean], &[Entries(4, 6)]],
        left: "[4,6)",
        deleted: 0,
    },
];

/// Makes an engine with the records of a removal in its rewrite file, and the batches in the last append file.
///
/// # Errors
///
/// Those of the engine's calls; `Memory`.
fn engine_with_removal(alloc: Global, removal: &Removal) -> Result<Engine<MemoryFiles>> {
    let mut engine = engine_with_moved_parts(alloc, removal.moved)?;
    write_batches(alloc, &mut engine, removal.batches)?;
    Ok(engine)
}

/// Writes each of `batches`, and syncs it.
///
/// # Errors
///
/// Those of the engine's calls; `Memory`.
fn write_batches(
    alloc: Global,
    engine: &mut Engine<MemoryFiles>,
    batches: &[&[Part]],
) -> Result<()> {
    for parts in batches {
        write_parts(alloc, engine, *parts, true)?;
    }
    Ok(())
}

/// Opens an engine over copies of the files of [`engine_with_removal`].
///
/// # Errors
///
/// Those of the engine's calls and of the opening; `Memory`.
fn reopen_with_removal<R: Threads + Sync>(
    rt: &R,
    alloc: Global,
    removal: &Removal,
) -> Result<Engine<MemoryFiles>> {
    let engine = engine_with_removal(alloc, removal)?;
    reopen_and_cite_law(rt, alloc, &engine)
}

/// Tests whether what was taken away stays away: in a restart, in a purge of the file with the batches, and in one more
/// restart.
///
/// # Errors
///
/// Those of the engine's calls and of the opening; `Memory`.
fn does_removal_stay<R: Threads + Sync>(rt: &R, alloc: Global, removal: &Removal) -> Result<bool> {
    let mut engine = reopen_with_removal(rt, alloc, removal)?;
    does_removal_stay_in(rt, alloc, &mut engine, removal)
}

/// Tests whether `engine` holds what `removal` leaves, and a restart finds it after a purge, which deletes as many
/// files as the removal says.
///
/// # Errors
///
/// Those of the engine's calls and of the opening; `Memory`.
fn does_removal_stay_in<R: Threads + Sync>(
    rt: &R,
    alloc: Global,
    engine: &mut Engine<MemoryFiles>,
    removal: &Removal,
) -> Result<bool> {
    let found = has_text(alloc, engine, removal.left)?;
    rotate(engine)?;
    let deleted = purge_append_files(engine)?;
    Ok(found && deleted == removal.deleted && is_found_reopened(rt, alloc, engine, removal.left)?)
}

/// Tests whether what was taken away stays away if what is left moves before the purge, which then deletes the file with the
/// batches in any case.
///
/// # Errors
///
/// Those of the engine's calls and of the opening; `Memory`.
fn does_removal_stay_after_move<R: Threads + Sync>(
    rt: &R,
    alloc: Global,
    removal: &Removal,
) -> Result<bool> {
    let mut engine = reopen_with_removal(rt, alloc, removal)?;
    does_removal_stay_after_move_in(rt, alloc, &mut engine, removal)
}

/// Moves what is left, and purges. Tests whether a restart finds what `removal` leaves.
///
/// # Errors
///
/// Those of the engine's calls and of the opening; `Memory`.
fn does_removal_stay_after_move_in<R: Threads + Sync>(
    rt: &R,
    alloc: Global,
    engine: &mut Engine<MemoryFiles>,
    removal: &Removal,
) -> Result<bool> {
    Ok(move_and_purge_append_files(engine)? && is_found_reopened(rt, alloc, engine, removal.left)?)
}

/// Tests whether what was taken away stays away, with and without a move before the purge.
///
/// # Errors
///
/// Those of the engine's calls and of the opening; `Memory`.
fn does_removal_stay_in_both<R: Threads + Sync>(
    rt: &R,
    alloc: Global,
    removal: &Removal,
) -> Result<bool> {
    Ok(does_removal_stay(rt, alloc, removal)? && does_removal_stay_after_move(rt, alloc, removal)?)
}

/// Tests that what each removal takes away doesn't come back when files are deleted.
#[test]
fn what_was_taken_away_stays_away(rt: HostRuntime) {
    for (row, removal) in REMOVALS.iter().enumerate() {
        assert!(rt;
            holds!(does_removal_stay_in_both(&rt, rt.alloc(), removal)),
            "row {row}"
        );
    }
}
