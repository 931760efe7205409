//! Tests of regions whose entries are more than one part: they move to the rewrite queue in several batches, and from there in
//! an atomic group.

use crate::again::{is_found_after_moves_and_purges, move_and_purge_append_files, write_each};
use crate::batches::Part::{Medium, Put};
use crate::calls::{
    copy_files, holds, new_engine, purge_rewrite_files, rewrite_again, write_parts,
};
use crate::reopened::is_found_reopened;
use raft_base::{FileId, LogQueue, Version};
use raft_engine::Engine;
use raft_files::MemoryFiles;
use raft_records::AtomicGroupStatus::{Begin, End, Middle};
use raft_records::{AtomicGroupStatus, FilePart, Result, next_batch};
use std::alloc::Global;
use std::thread::Threads;

/// What the engine holds: entries of 1,500 bytes each, of which two are one part, and a key.
const TEXT: &str = "[1,4)k=v";

type Marker = Option<(u64, AtomicGroupStatus)>;

/// Makes an engine that wrote entries of more than half a batch each and `k=v`, and moved them to its first rewrite file.
///
/// # Errors
///
/// Those of the engine's calls; `Memory`.
fn engine_with_large_regions(alloc: Global) -> Result<Engine<MemoryFiles>> {
    let mut engine = new_engine(alloc)?;
    write_and_move_large_regions(alloc, &mut engine)?;
    Ok(engine)
}

/// Writes entries of more than half a batch each and `k=v`, and moves them to the first rewrite file.
///
/// # Errors
///
/// Those of the engine's calls; `Memory`.
fn write_and_move_large_regions(alloc: Global, engine: &mut Engine<MemoryFiles>) -> Result<()> {
    write_each(alloc, engine, &[Medium(1, 2), Medium(2, 3), Medium(3, 4)])?;
    write_parts(alloc, engine, &[Put("v")], false)?;
    move_and_purge_append_files(engine)?;
    Ok(())
}

/// Returns for each of the first five batches of a rewrite file the group marker with which it begins, or `None`.
///
/// # Errors
///
/// Those of reading the batches, and of a first item that is no marker but has a marker's key; `Memory`.
fn markers_of_part(alloc: Global, part: &FilePart) -> Result<Vec<Marker>> {
    let mut markers = Vec::new(alloc);
    let mut at = 0;
    for _ in 0u8..5 {
        let Some((batch, next)) = next_batch(part, at.min(part.bytes().len()))? else {
            return Ok(markers);
        };
        if let Some(item) = batch.as_slice().first() {
            markers.push(AtomicGroupStatus::parse(alloc, item)?)?;
        }
        at = next;
    }
    Ok(markers)
}

/// Returns the markers with which the batches of the last rewrite file begin.
///
/// # Errors
///
/// Those of [`markers_of_part`]; `Memory`.
fn markers_of_last_file(alloc: Global, engine: &Engine<MemoryFiles>) -> Result<Vec<Marker>> {
    let Some((seq, bytes)) = copy_files(engine, LogQueue::Rewrite)?.pop() else {
        return Ok(Vec::new(alloc));
    };
    let file = FileId::new(LogQueue::Rewrite, seq);
    markers_of_part(alloc, &FilePart::new(file, Version::V2, 0, bytes)?)
}

/// Tests whether the last rewrite file has two batches, none of them of a group.
///
/// # Errors
///
/// Those of [`markers_of_last_file`].
fn has_two_batches(alloc: Global, engine: &Engine<MemoryFiles>) -> Result<bool> {
    Ok(markers_of_last_file(alloc, engine)?.as_slice() == [None, None].as_slice())
}

/// Tests whether the last rewrite file has just a group of the number `seq`, with two parts.
///
/// # Errors
///
/// Those of [`markers_of_last_file`].
fn has_group(alloc: Global, engine: &Engine<MemoryFiles>, seq: u64) -> Result<bool> {
    let group = [
        Some((seq, Begin)),
        Some((seq, Middle)),
        Some((seq, Middle)),
        Some((seq, End)),
    ];
    Ok(markers_of_last_file(alloc, engine)?.as_slice() == group.as_slice())
}

/// Tests whether the records move in two batches, then in a group, and then in another group once the older file is deleted;
/// and whether a restart finds them after each move.
///
/// # Errors
///
/// Those of the engine's calls and of the opening; `Memory`.
fn do_records_move_in_groups<R: Threads + Sync>(rt: &R, alloc: Global) -> Result<bool> {
    let mut engine = engine_with_large_regions(alloc)?;
    do_records_move_in_two_groups(rt, alloc, &mut engine)
}

/// Tests whether the records of `engine` move in two batches, then in group 2, and then in one more group, and
/// restarts find them.
///
/// # Errors
///
/// Those of the engine's calls and of the opening; `Memory`.
fn do_records_move_in_two_groups<R: Threads + Sync>(
    rt: &R,
    alloc: Global,
    engine: &mut Engine<MemoryFiles>,
) -> Result<bool> {
    if !has_two_batches(alloc, engine)? || !is_found_reopened(rt, alloc, engine, TEXT)? {
        return Ok(false);
    }
    rewrite_again(engine)?;
    if !has_group(alloc, engine, 2)? || !is_found_reopened(rt, alloc, engine, TEXT)? {
        return Ok(false);
    }
    purge_rewrite_files(engine)?;
    Ok(is_found_after_moves_and_purges(rt, alloc, engine, TEXT)? && has_group(alloc, engine, 3)?)
}

/// Tests that the records of a region that takes several batches move again as an atomic group.
#[test]
fn large_regions_move_in_groups(rt: HostRuntime) {
    assert!(rt; holds!(do_records_move_in_groups(&rt, rt.alloc())));
}
