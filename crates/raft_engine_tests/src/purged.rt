//! Tests of append files that no table needs: an engine deletes them, and what is left gives its records.

use crate::batches::Part::{Clean, Compact, Delete, Entries, Put};
use crate::batches::{Part, REGION};
use crate::calls::{
    count_files, holds, new_engine, purge_append_files, recover_tables, rotate, write_parts,
};
use crate::engine::table_text;
use crate::reopened::has_text;
use raft_base::LogQueue;
use raft_engine::Engine;
use raft_files::MemoryFiles;
use raft_records::Result;
use std::alloc::Global;
use std::thread::Threads;

/// Batches, each in a file of its own, with what a purge must do.
struct Purge {
    /// The batches.
    batches: &'static [&'static [Part]],
    /// How many files a purge deletes. The last file, which is empty, is never deleted.
    deleted: usize,
    /// What the engine holds then.
    left: &'static str,
}

static PURGES: [Purge; 7] = [
    Purge {
        batches: &[&[Entries(1, 5)]],
        deleted: 0,
        left: "[1,5)",
    },
    Purge {
        batches: &[&[Entries(1, 5)], &[Compact(5)]],
        deleted: 2,
        left: "",
    },
    Purge {
        batches: &[&[Entries(1, 5)], &[Compact(3)]],
        deleted: 0,
        left: "[3,5)",
    },
    Purge {
        batches: &[&[Put("v")], &[Put("w")]],
        deleted: 1,
        left: "k=w",
    },
    Purge {
        batches: &[&[Entries(1, 5)], &[Entries(1, 3)]],
        deleted: 1,
        left: "[1,3)",
    },
    Purge {
        batches: &[&[Entries(1, 5), Put("v")], &[Clean, Put("w")]],
        deleted: 1,
        left: "k=w",
    },
    Purge {
        batches: &[&[Put("v")], &[Entries(1, 2)], &[Delete]],
        deleted: 1,
        left: "[1,2)",
    },
];

/// Makes an engine that wrote each batch of a row, and began a new file after each.
///
/// # Errors
///
/// Those of the engine's calls; `Memory`.
fn engine_with_batches(alloc: Global, row: &Purge) -> Result<Engine<MemoryFiles>> {
    let mut engine = new_engine(alloc)?;
    write_batches_and_rotate(alloc, &mut engine, row.batches)?;
    Ok(engine)
}

/// Writes each of `batches`, and begins a new append file after each.
///
/// # Errors
///
/// Those of the engine's calls; `Memory`.
fn write_batches_and_rotate(
    alloc: Global,
    engine: &mut Engine<MemoryFiles>,
    batches: &[&[Part]],
) -> Result<()> {
    for parts in batches {
        write_parts(alloc, engine, *parts, false)?;
        rotate(engine)?;
    }
    Ok(())
}

/// Tests whether a recovery of these files gives `left`.
///
/// # Errors
///
/// Those of the recovery; `Memory`.
fn is_text_recovered<R: Threads + Sync>(
    rt: &R,
    alloc: Global,
    files: &MemoryFiles,
    left: &str,
) -> Result<bool> {
    let append = files.copies(LogQueue::Append)?;
    let found = recover_tables(rt, alloc, append, files.copies(LogQueue::Rewrite)?)?;
    Ok(table_text(alloc, found.get(REGION))?.as_str() == left)
}

/// Tests whether a purge deletes as many files as the row says, a second purge deletes none, and the engine and its files
/// still have what is left.
///
/// # Errors
///
/// Those of the engine's calls and of the recovery; `Memory`.
fn is_row_purged<R: Threads + Sync>(rt: &R, alloc: Global, row: &Purge) -> Result<bool> {
    let mut engine = engine_with_batches(alloc, row)?;
    is_row_purged_in(rt, alloc, &mut engine, row)
}

/// Tests whether two purges of `engine` delete what `row` says and nothing more, and what is left can be recovered.
///
/// # Errors
///
/// Those of the engine's calls and of the recovery; `Memory`.
fn is_row_purged_in<R: Threads + Sync>(
    rt: &R,
    alloc: Global,
    engine: &mut Engine<MemoryFiles>,
    row: &Purge,
) -> Result<bool> {
    let deleted = purge_append_files(engine)?;
    let again = purge_append_files(engine)?;
    let files = count_files(engine, LogQueue::Append);
    Ok(
        deleted == row.deleted
            && again == 0
            && files.saturating_add(deleted) == row.batches.len().saturating_add(1)
            && has_text(alloc, engine, row.left)?
            && is_text_recovered(rt, alloc, engine.files(), row.left)?,
    )
}

/// Tests that a purge deletes just the oldest files that no table needs.
#[test]
fn files_that_no_table_needs_are_deleted(rt: HostRuntime) {
    for (row, purge) in PURGES.iter().enumerate() {
        assert!(rt; holds!(is_row_purged(&rt, rt.alloc(), purge)), "row {row}");
    }
}
