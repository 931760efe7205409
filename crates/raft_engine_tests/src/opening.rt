//! Tests that an opening which refuses files asks nothing of them: they are as they were, and can be opened afterwards with
//! all that they hold.

use crate::batches::Part::{Entries, Put};
use crate::batches::REGION;
use crate::calls::{
    LogFiles, Opened, RIGHT, Way, copy_files, flip_bit_of_first_file, holds, new_engine,
    open_and_return_cuts, open_in_way, write_parts,
};
use crate::engine::table_text;
use raft_base::{LogQueue, Version};
use raft_engine::{CutTail, Engine, RecoveryMode};
use raft_files::MemoryFiles;
use raft_records::{Error, Result};
use std::alloc::Global;
use std::thread::Threads;

const WITHOUT_WORKERS: Way = Way {
    version: Version::V2,
    workers: 0,
};

const IN_OTHER_VERSION: Way = Way {
    version: Version::V1,
    workers: 2,
};

/// Opens an engine over copies of the files of both queues, in the given way.
///
/// # Errors
///
/// `Memory` for the copies. What the opening answers is in the result.
fn open_copies_in_way<R: Threads + Sync>(
    rt: &R,
    alloc: Global,
    way: Way,
    files: &MemoryFiles,
) -> Result<Opened> {
    let append = files.copies(LogQueue::Append)?;
    open_in_way(rt, alloc, way, append, files.copies(LogQueue::Rewrite)?)
}

/// Returns the append file of an engine that wrote [1,3), `k=v` and a third batch, which lacks its last byte.
///
/// # Errors
///
/// Those of the engine's calls; `Memory`.
fn torn_file(alloc: Global) -> Result<LogFiles> {
    let mut engine = new_engine(alloc)?;
    write_and_tear(alloc, &mut engine)
}

/// Writes three batches, and returns a copy of the append file without its last byte.
///
/// # Errors
///
/// Those of the engine's calls; `Memory`.
fn write_and_tear(alloc: Global, engine: &mut Engine<MemoryFiles>) -> Result<LogFiles> {
    write_parts(alloc, engine, &[Entries(1, 3)], true)?;
    write_parts(alloc, engine, &[Put("v")], true)?;
    write_parts(alloc, engine, &[Entries(3, 9)], true)?;
    let mut append = copy_files(engine, LogQueue::Append)?;
    if let Some(last) = append.last_mut() {
        let len = last.1.len().saturating_sub(1);
        last.1.truncate(len);
    }
    Ok(append)
}

/// Returns the append file of [`torn_file`], with a bit of its first batch changed.
///
/// # Errors
///
/// Those of the engine's calls; `Memory`.
fn damaged_file(alloc: Global) -> Result<LogFiles> {
    let files = torn_file(alloc)?;
    Ok(flip_bit_of_first_file(files, 24))
}

/// Returns the files that a refused opening hands back, or `None` if it succeeded.
///
/// # Errors
///
/// `Memory` alone: any other error hands the files back.
fn files_handed_back(opened: Opened) -> Result<Option<MemoryFiles>> {
    match opened {
        Ok(_) => Ok(None),
        Err(unopened) => match unopened.error {
            Error::Memory => Err(Error::Memory),
            _ => Ok(Some(unopened.files)),
        },
    }
}

/// Tests whether files can be opened in the right way, and hold what was written before the torn batch.
///
/// # Errors
///
/// Those of the opening; `Memory`.
fn are_opened_with_prefix<R: Threads + Sync>(
    rt: &R,
    alloc: Global,
    files: &MemoryFiles,
) -> Result<bool> {
    let engine = open_copies_in_way(rt, alloc, RIGHT, files)??;
    Ok(table_text(alloc, engine.accessor().get(REGION))?.as_str() == "[1,3)k=v")
}

/// Tests whether the append file still has each byte of the torn file.
///
/// # Errors
///
/// Those of [`torn_file`].
fn is_torn_file_left(alloc: Global, files: &MemoryFiles) -> Result<bool> {
    let torn = torn_file(alloc)?;
    match (files.files(LogQueue::Append).last(), torn.last()) {
        (Some(left), Some(last)) => Ok(left.1.as_slice() == last.1.as_slice()),
        _ => Ok(false),
    }
}

/// Tests whether an opening in this wrong way refuses the torn file and leaves it as it is, and one in the right way opens it
/// then.
///
/// # Errors
///
/// Those of the engine's calls and of the opening; `Memory`.
fn is_wrong_way_refused<R: Threads + Sync>(rt: &R, alloc: Global, way: Way) -> Result<bool> {
    match files_handed_back(open_in_way(rt, alloc, way, torn_file(alloc)?, Vec::new(alloc))?)? {
        Some(files) => is_left_and_opened(rt, alloc, &files),
        None => Ok(false),
    }
}

/// Tests whether the append file is as it was, and can be opened in the right way.
///
/// # Errors
///
/// Those of the engine's calls and of the opening; `Memory`.
fn is_left_and_opened<R: Threads + Sync>(
    rt: &R,
    alloc: Global,
    files: &MemoryFiles,
) -> Result<bool> {
    Ok(is_torn_file_left(alloc, files)? && are_opened_with_prefix(rt, alloc, files)?)
}

/// Tests whether an opening refuses a damaged rewrite file, and leaves the torn append file as it is.
///
/// # Errors
///
/// Those of the engine's calls and of the opening; `Memory`.
fn is_damaged_rewrite_file_refused<R: Threads + Sync>(rt: &R, alloc: Global) -> Result<bool> {
    match files_handed_back(open_in_way(
        rt,
        alloc,
        RIGHT,
        torn_file(alloc)?,
        damaged_file(alloc)?,
    )?)? {
        Some(files) => is_torn_file_left(alloc, &files),
        None => Ok(false),
    }
}

/// Returns the length of the last file in bytes.
fn last_file_len(files: &LogFiles) -> u64 {
    files.last().map_or(0, |file| file.1.len() as u64)
}

/// Returns how many bytes the first two batches of the torn file have.
///
/// # Errors
///
/// Those of the engine's calls; `Memory`.
fn whole_batches_len(alloc: Global) -> Result<u64> {
    let mut engine = new_engine(alloc)?;
    write_parts(alloc, &mut engine, &[Entries(1, 3)], true)?;
    write_parts(alloc, &mut engine, &[Put("v")], true)?;
    let append = copy_files(&engine, LogQueue::Append)?;
    Ok(last_file_len(&append))
}

/// Tests whether `tail` is that of file 1 from the offset `whole` on, up to the file's length `len`.
fn is_tail_of_file_1(tail: Option<&CutTail>, whole: u64, len: u64) -> bool {
    match tail {
        Some(tail) => {
            tail.file == 1 && tail.offset == whole && tail.len == len.saturating_sub(whole)
        }
        None => false,
    }
}

/// Tests whether an opening tells which torn tail it cuts off the append queue, and that it cuts nothing off the rewrite
/// queue.
///
/// # Errors
///
/// Those of the engine's calls and of the opening; `Memory`.
fn is_cut_tail_told<R: Threads + Sync>(rt: &R, alloc: Global) -> Result<bool> {
    let append = torn_file(alloc)?;
    let len = last_file_len(&append);
    let mode = RecoveryMode::TolerateTornTail;
    let cut = open_and_return_cuts(rt, alloc, mode, append, Vec::new(alloc))?;
    Ok(
        is_tail_of_file_1(cut.append.as_ref(), whole_batches_len(alloc)?, len)
            && cut.rewrite.is_none(),
    )
}

/// Tests that an opening tells the offset and the length of the torn tail that it cuts off.
#[test]
fn an_opening_tells_which_tail_it_cuts_off(rt: HostRuntime) {
    assert!(rt; holds!(is_cut_tail_told(&rt, rt.alloc())));
}

/// Tests whether an opening in the mode that cuts off damage tells that it cuts off all of a file whose first byte is changed.
///
/// # Errors
///
/// Those of the engine's calls and of the opening; `Memory`.
fn is_cut_damage_told<R: Threads + Sync>(rt: &R, alloc: Global) -> Result<bool> {
    let append = flip_bit_of_first_file(torn_file(alloc)?, 0);
    let len = last_file_len(&append);
    let mode = RecoveryMode::TolerateTailCorruption;
    let cut = open_and_return_cuts(rt, alloc, mode, append, Vec::new(alloc))?;
    Ok(is_tail_of_file_1(cut.append.as_ref(), 0, len) && cut.rewrite.is_none())
}

/// Tests that an opening in the mode that cuts off damage tells what it cuts off.
#[test]
fn an_opening_tells_that_it_cuts_off_damage(rt: HostRuntime) {
    assert!(rt; holds!(is_cut_damage_told(&rt, rt.alloc())));
}

/// Returns the torn file with another number.
///
/// # Errors
///
/// Those of the engine's calls; `Memory`.
fn renumbered_torn_file(alloc: Global) -> Result<LogFiles> {
    let mut append = torn_file(alloc)?;
    if let Some(last) = append.last_mut() {
        last.0 = 2;
    }
    Ok(append)
}

/// Tests whether an opening refuses append files.
///
/// # Errors
///
/// `Memory` alone: any other error says that they are refused.
fn are_append_files_refused<R: Threads + Sync>(
    rt: &R,
    alloc: Global,
    append: LogFiles,
) -> Result<bool> {
    let left = files_handed_back(open_in_way(rt, alloc, RIGHT, append, Vec::new(alloc))?)?;
    Ok(left.is_some())
}

/// Tests whether an opening refuses a file whose first byte is changed, so that its header names more bytes than there are,
/// and a file that got another number: after the first byte stand sound batches, or batches that are signed for the old
/// number.
///
/// # Errors
///
/// Those of the engine's calls and of the opening; `Memory`.
fn is_damage_refused_as_no_tail<R: Threads + Sync>(rt: &R, alloc: Global) -> Result<bool> {
    Ok(
        are_append_files_refused(rt, alloc, flip_bit_of_first_file(torn_file(alloc)?, 0))?
            && are_append_files_refused(rt, alloc, renumbered_torn_file(alloc)?)?,
    )
}

/// Tests that damage which no crash leaves is refused, in place of being cut off.
#[test]
fn damage_is_refused_as_no_torn_tail(rt: HostRuntime) {
    assert!(rt; holds!(is_damage_refused_as_no_tail(&rt, rt.alloc())));
}

/// Tests whether an opening without workers, one in another version, and one of a damaged rewrite file are refused.
///
/// # Errors
///
/// Those of the engine's calls and of the opening; `Memory`.
fn are_all_wrong_ways_refused<R: Threads + Sync>(rt: &R, alloc: Global) -> Result<bool> {
    Ok(
        is_wrong_way_refused(rt, alloc, WITHOUT_WORKERS)?
            && is_wrong_way_refused(rt, alloc, IN_OTHER_VERSION)?
            && is_damaged_rewrite_file_refused(rt, alloc)?,
    )
}

/// Tests that a refused opening leaves the files as they are, and hands them back.
#[test]
fn a_refused_opening_asks_nothing_of_the_files(rt: HostRuntime) {
    assert!(rt; holds!(are_all_wrong_ways_refused(&rt, rt.alloc())));
}
