//! Tests of an engine whose files have no room for a while: what was to be put is taken back, and the engine goes on once there
//! is room, without being opened again.

ghost use Rattle.std.specs.Prelude.{◌≡◌};

use crate::batches::Part::{Delete, Entries, Put};
use crate::batches::{Part, REGION, batch_of_parts};
use crate::calls::{
    holds, open_copies, purge_append_files, purge_rewrite_files, rewrite_again, rewrite_up_to,
    rotate,
};
use crate::reopened::has_text;
use raft_base::{FileBlockHandle, FileSeq, LogQueue, Version};
use raft_engine::Engine;
use raft_files::{AppendError, EngineFiles, MemoryFiles};
use raft_records::{Error, LogBatch, Result};
use std::alloc::Global;
use std::io;
use std::io::ErrorKind;
use std::thread::Threads;

/// Files in memory of which one append finds no room.
#[derive(Drop)]
struct FullOnce {
    /// The files.
    files: MemoryFiles,
    /// How many appends come before it.
    before: usize,
    /// Whether it came.
    was_full: bool,
}

impl FullOnce {
    /// Counts an append. Returns whether there is room for it.
    fn has_room(&mut self) -> bool
        ensures { self.new.files ≡ self.old.files }
    {
        if self.before > 0 {
            self.before -= 1;
            return true;
        }
        let had = self.was_full;
        self.was_full = true;
        had
    }
}

impl EngineFiles for FullOnce {
    ghost asked = { λ f. f.files };

    /// Appends `bytes` to the last file of `queue`, if there is room.
    ///
    /// # Errors
    ///
    /// `AsBefore` with `StorageFull` if there is no room; those of the files in memory.
    fn append(&mut self, queue: LogQueue, bytes: &[u8]) -> std::result::Result<(), AppendError> {
        if self.has_room() {
            return self.files.append(queue, bytes);
        }
        let full = io::Error::from(ErrorKind::StorageFull);
        Err(AppendError::AsBefore(Error::Io(full)))
    }

    /// Begins the file `seq` of `queue`.
    ///
    /// # Errors
    ///
    /// Those of the files in memory.
    fn rotate(&mut self, queue: LogQueue, seq: FileSeq) -> Result<()> {
        self.files.rotate(queue, seq)
    }

    /// Syncs `queue`.
    ///
    /// # Errors
    ///
    /// Those of the files in memory.
    fn sync(&mut self, queue: LogQueue) -> Result<()> {
        self.files.sync(queue)
    }

    /// Deletes the oldest file of `queue`.
    ///
    /// # Errors
    ///
    /// Those of the files in memory.
    fn delete_oldest(&mut self, queue: LogQueue) -> Result<()> {
        self.files.delete_oldest(queue)
    }

    /// Cuts the last file of `queue` to `len` bytes.
    ///
    /// # Errors
    ///
    /// Those of the files in memory.
    fn truncate(&mut self, queue: LogQueue, len: u64) -> Result<()> {
        self.files.truncate(queue, len)
    }

    /// Returns the bytes at `place`.
    ///
    /// # Errors
    ///
    /// Those of the files in memory.
    fn read(&mut self, place: FileBlockHandle) -> Result<Vec<u8>> {
        self.files.read(place)
    }
}

/// Makes an engine over files of which one append finds no room, behind `before` others.
///
/// # Errors
///
/// Those of [`Engine::new`].
fn new_engine(alloc: Global, before: usize) -> Result<Engine<FullOnce>> {
    let files = FullOnce {
        files: MemoryFiles::new(alloc),
        before,
        was_full: false,
    };
    Engine::new(alloc, Version::V2, files)
}

/// Returns whether a call found no room and left an intact engine, so that it can be made again.
///
/// # Errors
///
/// `Failed` if it left one that isn't intact. Any other error is passed on.
fn has_found_no_room<T: Drop>(engine: &Engine<FullOnce>, answer: Result<T>) -> Result<bool> {
    match answer {
        Ok(_) => Ok(false),
        Err(Error::Io(_)) if engine.is_intact() => Ok(true),
        Err(Error::Io(_)) => Err(Error::Failed),
        Err(e) => Err(e),
    }
}

/// Writes `batch`, and doesn't sync it.
///
/// # Errors
///
/// Those of [`Engine::write`].
fn write_whole(engine: &mut Engine<FullOnce>, batch: &mut LogBatch) -> Result<()> {
    engine.write(batch, false)
}

/// Writes a batch of `parts`, once more if there was no room. Returns whether it had its items in between, and none
/// afterwards.
///
/// # Errors
///
/// Those of [`has_found_no_room`], and of the second write; `Memory`.
fn is_written_at_second_try(
    alloc: Global,
    engine: &mut Engine<FullOnce>,
    parts: &[Part],
) -> Result<bool> {
    let mut batch = batch_of_parts(alloc, parts)?;
    let answer = write_whole(engine, &mut batch);
    if has_found_no_room(engine, answer)? {
        if batch.items().len() != parts.len() {
            return Ok(false);
        }
        write_whole(engine, &mut batch)?;
    }
    Ok(batch.is_empty() && batch.is_open())
}

/// Begins an append file, and moves all records of the append files to the rewrite queue, once more if there was no room.
///
/// # Errors
///
/// Those of beginning a file, of [`has_found_no_room`], and of the second move.
fn move_all_at_second_try(engine: &mut Engine<FullOnce>) -> Result<()> {
    rotate(engine)?;
    let answer = rewrite_up_to(engine, FileSeq::MAX);
    if has_found_no_room(engine, answer)? {
        rewrite_up_to(engine, FileSeq::MAX)?;
    }
    Ok(())
}

/// Begins an append file, and purges the append queue, once more if there was no room for what has to be told. Returns
/// whether one append file is left.
///
/// # Errors
///
/// Those of beginning a file, of [`has_found_no_room`], and of the second purge.
fn purge_append_files_at_second_try(engine: &mut Engine<FullOnce>) -> Result<bool> {
    rotate(engine)?;
    let answer = purge_append_files(engine);
    if has_found_no_room(engine, answer)? {
        purge_append_files(engine)?;
    }
    Ok(engine.files().files.files(LogQueue::Append).len() == 1)
}

/// Moves all records of the rewrite files to a new rewrite file, once more if there was no room, and purges the rewrite
/// queue. Returns whether one rewrite file is left.
///
/// # Errors
///
/// Those of [`has_found_no_room`], of the second move, and of the purge.
fn rewrite_again_at_second_try(engine: &mut Engine<FullOnce>) -> Result<bool> {
    let answer = rewrite_again(engine);
    if has_found_no_room(engine, answer)? {
        rewrite_again(engine)?;
    }
    purge_rewrite_files(engine)?;
    Ok(engine.files().files.files(LogQueue::Rewrite).len() == 1)
}

/// Writes entries and a key, moves them, writes further entries and deletes the key, moves these entries too, purges the
/// append queue, moves the records of the rewrite files again, and purges the rewrite queue. Returns whether a write
/// without room left the items in its batch, each took them in the end, and one file of each queue is left.
///
/// # Errors
///
/// Those of [`has_found_no_room`], of calls that are made once more, of beginning a file, and of the last purge; `Memory`.
fn does_life_succeed(alloc: Global, engine: &mut Engine<FullOnce>) -> Result<bool> {
    if !is_written_at_second_try(alloc, engine, &[Entries(1, 3), Put("v")])? {
        return Ok(false);
    }
    move_all_at_second_try(engine)?;
    if !is_written_at_second_try(alloc, engine, &[Entries(3, 5), Delete])? {
        return Ok(false);
    }
    move_all_at_second_try(engine)?;
    Ok(purge_append_files_at_second_try(engine)? && rewrite_again_at_second_try(engine)?)
}

/// Tests whether an engine has the entries 1 to 4, and no key.
fn has_entries_1_to_4(engine: &Engine<FullOnce>) -> bool {
    engine.first_index(REGION) == Some(1)
        && engine.last_index(REGION) == Some(4)
        && engine.get(REGION, b"k").is_none()
}

/// Tests whether an engine that finds no room once, behind `before` appends, goes on as [`does_life_succeed`] says, and holds
/// what it should, before and after a restart.
///
/// # Errors
///
/// Those of [`does_life_succeed`], and of the opening; `Memory`.
fn lives<R: Threads + Sync>(rt: &R, alloc: Global, before: usize) -> Result<bool> {
    let mut engine = new_engine(alloc, before)?;
    Ok(
        does_life_succeed(alloc, &mut engine)?
            && engine.files().was_full
            && has_entries_1_to_4(&engine)
            && are_entries_found_reopened(rt, alloc, &engine.files().files)?,
    )
}

/// Tests whether an engine that is opened over copies of the files holds the entries, and no key.
///
/// # Errors
///
/// Those of the opening; `Memory`.
fn are_entries_found_reopened<R: Threads + Sync>(
    rt: &R,
    alloc: Global,
    files: &MemoryFiles,
) -> Result<bool> {
    let append = files.copies(LogQueue::Append)?;
    let found = open_copies(rt, alloc, append, files.copies(LogQueue::Rewrite)?)?;
    has_text(alloc, &found, "[1,5)")
}

/// Tests that a call which finds no room leaves an intact engine, and succeeds when it is made again.
#[test]
fn an_engine_goes_on_once_there_is_room(rt: HostRuntime) {
    for before in 0usize..6 {
        assert!(rt; holds!(lives(&rt, rt.alloc(), before)), "append {before}");
    }
}
