//! Tests of moving rewritten records to a new rewrite file, after which the older ones are deleted; also with files that fail
//! in the midst of it.

ghost use Rattle.std.specs.Prelude.{◌≡◌};

use crate::batches::Part;
use crate::batches::Part::{Clean, Compact, Delete, Entries, Medium, Put, Truncate};
use crate::calls::{
    count_files, holds, open_copies, purge_append_files, purge_rewrite_files, rewrite_again,
    rewrite_up_to, rotate, write_parts,
};
use crate::reopened::{engine_with_moved_records, has_text, is_found_reopened};
use raft_base::{FileBlockHandle, FileSeq, LogQueue, Version};
use raft_engine::Engine;
use raft_files::{AppendError, EngineFiles, MemoryFiles};
use raft_records::{Error, Result};
use std::alloc::Global;
use std::thread::Threads;

/// Batches that are written after [1,10) and `k=v` have moved to a rewrite file, and what each leaves.
static CHANGES: [(&[Part], &str); 8] = [
    (&[], "[1,10)k=v"),
    (&[Compact(3)], "[3,10)k=v"),
    (&[Truncate(3)], "[1,3)k=v"),
    (&[Delete], "[1,10)"),
    (&[Entries(10, 12), Put("w")], "[1,12)k=w"),
    (&[Entries(5, 7)], "[1,7)k=v"),
    (&[Clean], ""),
    (&[Clean, Entries(4, 6)], "[4,6)"),
];

/// Tests whether a purge deletes `deleted` rewrite files, and leaves one.
///
/// # Errors
///
/// Those of the engine's calls; `Memory`.
fn does_purge_leave_one_rewrite_file(
    engine: &mut Engine<MemoryFiles>,
    deleted: usize,
) -> Result<bool> {
    Ok(purge_rewrite_files(engine)? == deleted && count_files(engine, LogQueue::Rewrite) == 1)
}

/// Moves the rewritten records to a new rewrite file, and purges the older one. Tests whether a restart finds `left` after
/// each of both.
///
/// # Errors
///
/// Those of the engine's calls and of the opening; `Memory`.
pub fn is_found_after_moves_and_purges<R: Threads + Sync>(
    rt: &R,
    alloc: Global,
    engine: &mut Engine<MemoryFiles>,
    left: &str,
) -> Result<bool> {
    rewrite_again(engine)?;
    let moved = is_found_reopened(rt, alloc, engine, left)?;
    Ok(
        moved
            && does_purge_leave_one_rewrite_file(engine, 1)?
            && does_purge_leave_one_rewrite_file(engine, 0)?
            && has_text(alloc, engine, left)?
            && is_found_reopened(rt, alloc, engine, left)?,
    )
}

/// Moves all that the append files have to the rewrite queue, and purges them. Returns whether one append file is left.
///
/// # Errors
///
/// Those of the engine's calls; `Memory`.
pub fn move_and_purge_append_files(engine: &mut Engine<MemoryFiles>) -> Result<bool> {
    rotate(engine)?;
    rewrite_up_to(engine, FileSeq::MAX)?;
    purge_append_files(engine)?;
    Ok(count_files(engine, LogQueue::Append) == 1)
}

/// Writes `parts` to an engine whose records have moved. Tests whether restarts find `left`: after the rewritten records have
/// moved again, and once more after all has moved out of the append files.
///
/// # Errors
///
/// Those of the engine's calls and of the opening; `Memory`.
fn does_change_stay<R: Threads + Sync>(
    rt: &R,
    alloc: Global,
    parts: &[Part],
    left: &str,
) -> Result<bool> {
    let mut engine = engine_with_moved_records(alloc)?;
    does_change_stay_in(rt, alloc, &mut engine, parts, left)
}

/// Writes `parts` to `engine`. Tests whether restarts find `left`, as [`does_change_stay`] says.
///
/// # Errors
///
/// Those of the engine's calls and of the opening; `Memory`.
fn does_change_stay_in<R: Threads + Sync>(
    rt: &R,
    alloc: Global,
    engine: &mut Engine<MemoryFiles>,
    parts: &[Part],
    left: &str,
) -> Result<bool> {
    write_parts(alloc, engine, parts, false)?;
    Ok(
        is_found_after_moves_and_purges(rt, alloc, engine, left)?
            && move_and_purge_append_files(engine)?
            && is_found_after_moves_and_purges(rt, alloc, engine, left)?,
    )
}

/// Tests that what each change leaves is found by restarts after the records have moved twice, and older files are
/// deleted.
#[test]
fn what_changes_leave_stays_when_records_move_again(rt: HostRuntime) {
    for (row, (parts, left)) in CHANGES.iter().enumerate() {
        assert!(rt;
            holds!(does_change_stay(&rt, rt.alloc(), parts, left)),
            "row {row}"
        );
    }
}

/// Files in memory of which only some calls succeed.
#[derive(Drop)]
struct Failing {
    /// The files.
    files: MemoryFiles,
    /// How many calls still succeed.
    left: usize,
}

impl Failing {
    /// Counts a call.
    ///
    /// # Errors
    ///
    /// `Failed` if no call is left.
    fn count_call(&mut self) -> Result<()>
        ensures { self.new.files ≡ self.old.files }
    {
        if self.left == 0 {
            return Err(Error::Failed);
        }
        self.left -= 1;
        Ok(())
    }
}

impl EngineFiles for Failing {
    ghost asked = { λ f. f.files };

    /// Counts the call, and appends `bytes` to the last file of `queue`.
    ///
    /// # Errors
    ///
    /// `InPart` with `Failed` once no calls are left; those of the files in memory.
    fn append(&mut self, queue: LogQueue, bytes: &[u8]) -> std::result::Result<(), AppendError> {
        match self.count_call() {
            Ok(()) => self.files.append(queue, bytes),
            Err(error) => Err(AppendError::InPart(error)),
        }
    }

    /// Counts the call, and begins the file `seq` of `queue`.
    ///
    /// # Errors
    ///
    /// `Failed` once no calls are left; those of the files in memory.
    fn rotate(&mut self, queue: LogQueue, seq: FileSeq) -> Result<()> {
        self.count_call()?;
        self.files.rotate(queue, seq)
    }

    /// Counts the call, and syncs `queue`.
    ///
    /// # Errors
    ///
    /// `Failed` once no calls are left.
    fn sync(&mut self, queue: LogQueue) -> Result<()> {
        self.count_call()?;
        self.files.sync(queue)
    }

    /// Counts the call, and deletes the oldest file of `queue`.
    ///
    /// # Errors
    ///
    /// `Failed` once no calls are left; those of the files in memory.
    fn delete_oldest(&mut self, queue: LogQueue) -> Result<()> {
        self.count_call()?;
        self.files.delete_oldest(queue)
    }

    /// Counts the call, and cuts the last file of `queue` to `len` bytes.
    ///
    /// # Errors
    ///
    /// `Failed` once no calls are left; those of the files in memory.
    fn truncate(&mut self, queue: LogQueue, len: u64) -> Result<()> {
        self.count_call()?;
        self.files.truncate(queue, len)
    }

    /// Counts the call, and returns the bytes at `place`.
    ///
    /// # Errors
    ///
    /// `Failed` once no calls are left; those of the files in memory.
    fn read(&mut self, place: FileBlockHandle) -> Result<Vec<u8>> {
        self.count_call()?;
        self.files.read(place)
    }
}

/// Makes an engine over files of which `left` calls succeed.
///
/// # Errors
///
/// Those of [`Engine::new`].
fn new_engine_over_failing(alloc: Global, left: usize) -> Result<Engine<Failing>> {
    let files = Failing {
        files: MemoryFiles::new(alloc),
        left,
    };
    Engine::new(alloc, Version::V2, files)
}

/// Makes an engine that wrote the parts `entries`, a batch each, and `k=v`. Of its files `left` further calls succeed.
///
/// # Errors
///
/// Those of the engine's calls; `Memory`.
fn engine_with_entries_and_key(
    alloc: Global,
    left: usize,
    entries: &[Part],
) -> Result<Engine<Failing>> {
    let calls = entries.len().saturating_add(4);
    let mut engine = new_engine_over_failing(alloc, left.saturating_add(calls))?;
    write_each(alloc, &mut engine, entries)?;
    write_parts(alloc, &mut engine, &[Put("v")], true)?;
    Ok(engine)
}

/// Writes a batch for each of these parts, in order.
///
/// # Errors
///
/// Those of the engine's calls; `Memory`.
pub fn write_each<F: EngineFiles>(
    alloc: Global,
    engine: &mut Engine<F>,
    parts: &[Part],
) -> Result<()> {
    for part in parts {
        write_parts(alloc, engine, &[*part], false)?;
    }
    Ok(())
}

/// Moves all records of the append files to the rewrite queue, and then all of the rewrite files to a new one; purges each
/// queue after its move. Returns how many rewrite files were deleted.
///
/// # Errors
///
/// Those of the engine's calls; `Memory`.
fn move_twice_and_purge(engine: &mut Engine<Failing>) -> Result<usize> {
    rotate(engine)?;
    rewrite_up_to(engine, FileSeq::MAX)?;
    purge_append_files(engine)?;
    rewrite_again(engine)?;
    purge_rewrite_files(engine)
}

/// Records that move while files fail.
struct Moving {
    /// The entries, a part for each batch.
    entries: &'static [Part],
    /// What restarts have to find.
    text: &'static str,
    /// How many calls of the files the move takes.
    calls: usize,
}

/// Entries that are one part of a rewriting, and entries that are two: the latter move in two batches, and then in a group of
/// four.
static MOVING: [Moving; 2] = [
    Moving {
        entries: &[Entries(1, 3)],
        text: "[1,3)k=v",
        calls: 16,
    },
    Moving {
        entries: &[Medium(1, 2), Medium(2, 3), Medium(3, 4)],
        text: "[1,4)k=v",
        calls: 23,
    },
];

/// Moves the records of `moving` over files of which `left` calls succeed. Returns whether the files failed, and whether a
/// restart finds all records then.
///
/// # Errors
///
/// Those of the engine's calls but `Failed`, which the result tells; those of the opening; `Memory`.
fn is_found_after_failure<R: Threads + Sync>(
    rt: &R,
    alloc: Global,
    left: usize,
    moving: &Moving,
) -> Result<(bool, bool)> {
    let mut engine = engine_with_entries_and_key(alloc, left, moving.entries)?;
    are_moved_records_found(rt, alloc, &mut engine, moving.text)
}

/// Moves the records of `engine` twice. Returns whether the files failed, and whether an engine over copies of them
/// holds `text`.
///
/// # Errors
///
/// Those of the engine's calls but `Failed`, which the result tells; those of the opening; `Memory`.
fn are_moved_records_found<R: Threads + Sync>(
    rt: &R,
    alloc: Global,
    engine: &mut Engine<Failing>,
    text: &str,
) -> Result<(bool, bool)> {
    let failed = have_files_failed(move_twice_and_purge(engine))?;
    let found = is_text_found_in(rt, alloc, &engine.files().files, text)?;
    Ok((failed, found))
}

/// Returns whether the files failed.
///
/// # Errors
///
/// That of `moved`, unless it is `Failed`.
fn have_files_failed(moved: Result<usize>) -> Result<bool> {
    match moved {
        Ok(_) => Ok(false),
        Err(Error::Failed) => Ok(true),
        Err(e) => Err(e),
    }
}

/// Tests whether an engine that is opened over copies of `files` holds `text`.
///
/// # Errors
///
/// Those of the opening; `Memory`.
fn is_text_found_in<R: Threads + Sync>(
    rt: &R,
    alloc: Global,
    files: &MemoryFiles,
    text: &str,
) -> Result<bool> {
    let found = open_over_copies(rt, alloc, files)?;
    has_text(alloc, &found, text)
}

/// Opens an engine over copies of `files`, with two workers.
///
/// # Errors
///
/// Those of the opening; `Memory`.
fn open_over_copies<R: Threads + Sync>(
    rt: &R,
    alloc: Global,
    files: &MemoryFiles,
) -> Result<Engine<MemoryFiles>> {
    let append = files.copies(LogQueue::Append)?;
    open_copies(rt, alloc, append, files.copies(LogQueue::Rewrite)?)
}

/// Returns how many calls of the files the move takes, if after each smaller number of calls a restart finds all records; else
/// `None`.
///
/// # Errors
///
/// Those of [`is_found_after_failure`].
fn count_calls_to_move<R: Threads + Sync>(
    rt: &R,
    alloc: Global,
    moving: &Moving,
) -> Result<Option<usize>> {
    for left in 0usize..40 {
        let (failed, found) = is_found_after_failure(rt, alloc, left, moving)?;
        if !found {
            return Ok(None);
        }
        if !failed {
            return Ok(Some(left));
        }
    }
    Ok(None)
}

/// Tests whether the move takes as many calls as `moving` says, and loses nothing if it is cut short.
///
/// # Errors
///
/// Those of [`is_found_after_failure`].
fn does_move_take_calls<R: Threads + Sync>(rt: &R, alloc: Global, moving: &Moving) -> Result<bool> {
    Ok(count_calls_to_move(rt, alloc, moving)? == Some(moving.calls))
}

/// Tests that moves that are cut short by failing files, at each of their calls, lose no record.
#[test]
fn files_that_fail_lose_nothing(rt: HostRuntime) {
    for moving in &MOVING {
        assert!(rt;
            holds!(does_move_take_calls(&rt, rt.alloc(), moving)),
            "{}",
            moving.text
        );
    }
}
