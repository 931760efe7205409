//! Tests of a long last file, which several workers read.

use crate::batches::Part::Large;
use crate::batches::REGION;
use crate::calls::{
    LogFiles, Way, are_batches_named, copy_files, flip_bit_of_first_file, holds, new_engine,
    open_in_mode, open_in_way, write_parts,
};
use crate::engine::table_text;
use raft_base::{LogQueue, Version};
use raft_engine::{Engine, RecoveryMode};
use raft_files::MemoryFiles;
use raft_records::Result;
use std::alloc::Global;
use std::thread::Threads;

/// A way with four workers. All of them read the append queue, as there are no rewrite files.
const BY_FOUR: Way = Way {
    version: Version::V2,
    workers: 4,
};

/// How many bytes the file lacks at its end, and what the engine holds that is opened over it.
static ROWS: [(usize, &str); 3] = [(0, "[1,1201)"), (1, "[1,801)"), (1_400_000, "[1,401)")];

/// Returns an append file of three batches of more than a MiB each, without its last `lacks` bytes.
///
/// # Errors
///
/// Those of the engine's calls; `Memory`.
fn long_file_lacking(alloc: Global, lacks: usize) -> Result<LogFiles> {
    let mut engine = new_engine(alloc)?;
    write_long_batches(alloc, &mut engine)?;
    let mut append = copy_files(&engine, LogQueue::Append)?;
    if let Some(last) = append.last_mut() {
        let len = last.1.len().saturating_sub(lacks);
        last.1.truncate(len);
    }
    Ok(append)
}

/// Writes three batches of 400 long entries each, from index 1 on.
///
/// # Errors
///
/// Those of the engine's calls; `Memory`.
fn write_long_batches(alloc: Global, engine: &mut Engine<MemoryFiles>) -> Result<()> {
    write_parts(alloc, engine, &[Large(1, 401)], false)?;
    write_parts(alloc, engine, &[Large(401, 801)], false)?;
    write_parts(alloc, engine, &[Large(801, 1201)], false)
}

/// Tests whether four workers open the long file, without as many bytes as the row says, and find the row's text.
///
/// # Errors
///
/// Those of the engine's calls and of the opening; `Memory`.
fn is_row_opened<R: Threads + Sync>(rt: &R, alloc: Global, row: &(usize, &str)) -> Result<bool> {
    let engine = open_in_way(
        rt,
        alloc,
        BY_FOUR,
        long_file_lacking(alloc, row.0)?,
        Vec::new(alloc),
    )??;
    Ok(table_text(alloc, engine.accessor().get(REGION))?.as_str() == row.1)
}

/// Tests that a last file of several MiB is opened, also with a torn tail.
#[test]
fn a_long_last_file_is_opened(rt: HostRuntime) {
    for row in &ROWS {
        assert!(rt; holds!(is_row_opened(&rt, rt.alloc(), row)));
    }
}

/// Returns the length of the first batch of one file, which the first seven bytes of its header name.
fn first_batch_len(files: &LogFiles) -> usize {
    let mut len = 0;
    for (_, bytes) in files {
        for byte in bytes.iter().take(7) {
            len = len << 8 | *byte as usize;
        }
    }
    len
}

/// Tests whether an opening by two workers names the second batch, if its entries are damaged.
///
/// # Errors
///
/// Those of the engine's calls and of the opening; `Memory`.
fn is_second_batch_named<R: Threads + Sync>(rt: &R, alloc: Global) -> Result<bool> {
    let files = long_file_lacking(alloc, 0)?;
    let second = first_batch_len(&files);
    let append = flip_bit_of_first_file(files, second.saturating_add(16));
    let mode = RecoveryMode::TolerateTornTail;
    let opened = open_in_mode(rt, alloc, mode, append, Vec::new(alloc))??;
    Ok(are_batches_named(opened.damaged.as_slice(), &[second as u64]))
}

/// Tests that an opening by two workers names a long batch whose entries are damaged.
#[test]
fn damaged_entries_of_a_long_last_file_are_named(rt: HostRuntime) {
    assert!(rt; holds!(is_second_batch_named(&rt, rt.alloc())));
}
