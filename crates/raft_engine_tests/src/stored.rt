//! Tests of an engine over files in memory: which bytes its files have, what it returns, and what a recovery finds.

use crate::batches::bytes_signed_for;
use crate::calls::{
    LogFiles, holds, is_corruption, new_engine, recover_tables, rotate, write_batch,
};
use crate::round_trip::{
    WRITTEN, are_lines_printed, batch_cleaning_region_8, batch_of_entry_and_key, batch_with_text,
};
use raft_engine::Engine;
use raft_files::MemoryFiles;
use raft_records::{FileId, LogQueue, Result};
use std::alloc::Global;
use std::thread::Threads;

/// Returns an engine with two append files, of a batch each.
///
/// # Errors
///
/// Those of the engine's calls; `Memory`.
fn engine_with_two_batches(alloc: Global) -> Result<Engine<MemoryFiles>> {
    let mut engine = new_engine(alloc)?;
    write_two_batches(alloc, &mut engine)?;
    Ok(engine)
}

/// Writes two batches, each to an append file of its own, and syncs them.
///
/// # Errors
///
/// Those of the engine's calls; `Memory`.
fn write_two_batches(alloc: Global, engine: &mut Engine<MemoryFiles>) -> Result<()> {
    write_batch(engine, batch_of_entry_and_key(alloc)?, true)?;
    rotate(engine)?;
    write_batch(engine, batch_cleaning_region_8(alloc)?, false)?;
    engine.sync()
}

/// Returns the append files that this engine must have: each batch in a file of its own, and nothing else.
///
/// # Errors
///
/// Those of making and signing the batches; `Memory`.
fn expected_files(alloc: Global) -> Result<LogFiles> {
    let first = bytes_signed_for(
        alloc,
        batch_of_entry_and_key(alloc)?,
        FileId::new(LogQueue::Append, 1),
    )?;
    let second = bytes_signed_for(
        alloc,
        batch_cleaning_region_8(alloc)?,
        FileId::new(LogQueue::Append, 2),
    )?;
    Ok(vec![in alloc; (1, first), (2, second)]?)
}

/// Returns copies of the files of `queue`.
///
/// # Errors
///
/// `Memory` alone.
fn copy_queue_files(
    alloc: Global,
    engine: &Engine<MemoryFiles>,
    queue: LogQueue,
) -> Result<LogFiles> {
    let mut files = Vec::new(alloc);
    for (seq, bytes) in engine.files().files(queue) {
        files.push((*seq, Vec::from_slice(alloc, bytes)?))?;
    }
    Ok(files)
}

/// Tests whether the append files have just the bytes of the batches, and a recovery gives the tables of the engine.
///
/// # Errors
///
/// Those of the engine's calls and of the recovery; `Memory`.
fn are_batches_found<R: Threads + Sync>(rt: &R, alloc: Global) -> Result<bool> {
    let engine = engine_with_two_batches(alloc)?;
    has_files_and_tables(rt, alloc, &engine)
}

/// Tests whether `engine` has just the files and the tables that were written, and a recovery gives these.
///
/// # Errors
///
/// Those of [`has_files`], and of the recovery; `Memory`.
fn has_files_and_tables<R: Threads + Sync>(
    rt: &R,
    alloc: Global,
    engine: &Engine<MemoryFiles>,
) -> Result<bool> {
    Ok(
        has_files(alloc, engine)?
            && engine.is_intact()
            && are_lines_printed(alloc, engine.accessor(), WRITTEN)?
            && are_tables_recovered(rt, alloc, engine)?,
    )
}

/// Tests whether the append files are just those of [`expected_files`].
///
/// # Errors
///
/// Those of [`expected_files`]; `Memory`.
fn has_files(alloc: Global, engine: &Engine<MemoryFiles>) -> Result<bool> {
    let append = copy_queue_files(alloc, engine, LogQueue::Append)?;
    Ok(append == expected_files(alloc)?)
}

/// Tests whether a recovery of the files of `engine` gives the tables that were written.
///
/// # Errors
///
/// Those of the recovery; `Memory`.
fn are_tables_recovered<R: Threads + Sync>(
    rt: &R,
    alloc: Global,
    engine: &Engine<MemoryFiles>,
) -> Result<bool> {
    let append = copy_queue_files(alloc, engine, LogQueue::Append)?;
    let found = recover_tables(
        rt,
        alloc,
        append,
        copy_queue_files(alloc, engine, LogQueue::Rewrite)?,
    )?;
    are_lines_printed(alloc, &found, WRITTEN)
}

/// Tests that the append files have just the bytes of the batches, and that a recovery gives the tables of the
/// engine.
#[test]
fn what_an_engine_wrote_is_found(rt: HostRuntime) {
    assert!(rt; holds!(are_batches_found(&rt, rt.alloc())));
}

/// Tests what an engine returns of region 7, and of a region that isn't there.
///
/// # Errors
///
/// Those of the engine's calls; `Memory`.
fn are_reads_right(alloc: Global) -> Result<bool> {
    let engine = engine_with_two_batches(alloc)?;
    Ok(has_value(&engine) && has_indexes(&engine))
}

/// Tests whether region 7 has the value `v` of the key `k`, and region 8 none.
fn has_value(engine: &Engine<MemoryFiles>) -> bool {
    let value = engine.get(7, b"k");
    matches!(value, Some(b"v")) && engine.get(8, b"k").is_none()
}

/// Tests whether region 7 has the entry 1 alone, and region 8 none.
fn has_indexes(engine: &Engine<MemoryFiles>) -> bool {
    engine.first_index(7) == Some(1)
        && engine.last_index(7) == Some(1)
        && engine.first_index(8).is_none()
        && engine.last_index(8).is_none()
}

/// Tests the value, the indexes and the entries of a region that is there, and of one that isn't.
#[test]
fn an_engine_returns_what_it_has_of_a_region(rt: HostRuntime) {
    assert!(rt; holds!(are_reads_right(rt.alloc())));
}

/// Tests whether an engine refuses an entry that would leave a hole, asks nothing of its files then, and serves on.
///
/// # Errors
///
/// Those of the engine's calls, but for the `Corruption` that is to be returned; `Memory`.
fn is_hole_refused(alloc: Global) -> Result<bool> {
    let mut engine = engine_with_two_batches(alloc)?;
    is_hole_refused_in(alloc, &mut engine)
}

/// Tests whether `engine` refuses an entry that leaves a hole, leaves its files as they were, and takes the next
/// entry.
///
/// # Errors
///
/// Those of the engine's calls, but for the `Corruption` that is to be returned; `Memory`.
fn is_hole_refused_in(alloc: Global, engine: &mut Engine<MemoryFiles>) -> Result<bool> {
    if !is_corruption(write_batch(engine, batch_with_text(alloc, 3, "three")?, true))? {
        return Ok(false);
    }
    let has_same_files = has_files(alloc, engine)?;
    write_batch(engine, batch_with_text(alloc, 2, "two")?, true)?;
    Ok(has_same_files && engine.is_intact() && engine.last_index(7) == Some(2))
}

/// Tests that an engine refuses an entry that would leave a hole, and takes further calls.
#[test]
fn an_engine_refuses_a_hole_and_serves_on(rt: HostRuntime) {
    assert!(rt; holds!(is_hole_refused(rt.alloc())));
}
