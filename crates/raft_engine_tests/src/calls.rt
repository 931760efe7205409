//! The calls of an engine, each in a function without a clause: goals of the functions that call these don't have the engine's
//! clauses before them, and are cheap to prove. A function that drops an engine or an error is dear for each way out of it, so tests
//! pass an engine on to a function that borrows it, mostly of the same name and `_in`, and ask here how that ended.

use crate::batches::{Part, batch_of_parts};
use raft_base::{FileSeq, LogQueue, Version};
use raft_engine::{DamagedBatch, Engine, Recovered, RecoveryMode, Unopened};
use raft_files::{EngineFiles, MemoryFiles};
use raft_memtable::MemTableAccessor;
use raft_records::{Error, LogBatch, Result};
use raft_recover::{file_segments, recover_both};
use std::alloc::Global;
use std::thread::Threads;

/// The numbers and the bytes of the files of a queue, oldest first.
pub type LogFiles = Vec<(FileSeq, Vec<u8>)>;

/// How files are opened.
#[derive(Clone, Copy)]
pub struct Way {
    /// The version in which the files are read.
    pub version: Version,
    /// The number of threads.
    pub workers: usize,
}

/// The way in which the files of the tests have to be opened.
pub const RIGHT: Way = Way {
    version: Version::V2,
    workers: 2,
};

/// What an opening returns.
pub type Opened = std::result::Result<Engine<MemoryFiles>, Unopened<MemoryFiles>>;

/// Makes a new engine over files in memory.
///
/// # Errors
///
/// Those of [`Engine::new`].
pub fn new_engine(alloc: Global) -> Result<Engine<MemoryFiles>> {
    Engine::new(alloc, Version::V2, MemoryFiles::new(alloc))
}

/// Opens an engine over copies of files in memory, in the given way. The outer error is want of memory for the copies.
///
/// # Errors
///
/// `Memory` for the copies. What the opening answers is in the result.
pub fn open_in_way<R: Threads + Sync>(
    rt: &R,
    alloc: Global,
    way: Way,
    append: LogFiles,
    rewrite: LogFiles,
) -> Result<Opened> {
    let files = MemoryFiles::found(append, rewrite);
    let append = files.copies(LogQueue::Append)?;
    let rewrite = files.copies(LogQueue::Rewrite)?;
    Ok(Engine::open(rt, alloc, way.version, files, append, rewrite, way.workers))
}

/// Opens an engine over files in a mode, with two workers. Returns what was cut off them.
///
/// # Errors
///
/// Those of the opening; `Memory`.
pub fn open_and_return_cuts<R: Threads + Sync>(
    rt: &R,
    alloc: Global,
    mode: RecoveryMode,
    append: LogFiles,
    rewrite: LogFiles,
) -> Result<Recovered> {
    let opened = open_in_mode(rt, alloc, mode, append, rewrite)??;
    Ok(opened.recovered)
}

/// What an opening in a mode returns.
pub type OpenedInMode = std::result::Result<
    raft_engine::Opened<MemoryFiles>,
    Unopened<MemoryFiles>,
>;

/// Opens an engine over copies of files in memory in a mode, with two workers. The outer error is want of memory for the
/// copies.
///
/// # Errors
///
/// `Memory` for the copies. What the opening answers is in the result.
pub fn open_in_mode<R: Threads + Sync>(
    rt: &R,
    alloc: Global,
    mode: RecoveryMode,
    append: LogFiles,
    rewrite: LogFiles,
) -> Result<OpenedInMode> {
    let files = MemoryFiles::found(append, rewrite);
    let append = files.copies(LogQueue::Append)?;
    let rewrite = files.copies(LogQueue::Rewrite)?;
    Ok(Engine::open_telling(
        rt,
        alloc,
        mode,
        RIGHT.version,
        files,
        append,
        rewrite,
        RIGHT.workers,
    ))
}

/// Tests whether the batches `damaged` are those of file 1 that begin at `offsets`, in this order.
pub fn are_batches_named(damaged: &[DamagedBatch], offsets: &[u64]) -> bool {
    damaged.len() == offsets.len()
        && damaged.iter().zip(offsets).all(|(batch, offset)| batch.offset == *offset
            && batch.file == 1)
}

/// Opens an engine over copies of files in memory, with two workers.
///
/// # Errors
///
/// Those of the opening; `Memory`.
pub fn open_copies<R: Threads + Sync>(
    rt: &R,
    alloc: Global,
    append: LogFiles,
    rewrite: LogFiles,
) -> Result<Engine<MemoryFiles>> {
    let engine = open_in_way(rt, alloc, RIGHT, append, rewrite)??;
    Ok(engine)
}

/// Opens an engine over copies of the files of another one, with two workers.
///
/// # Errors
///
/// Those of the opening; `Memory`.
pub fn reopen_over_copies<R: Threads + Sync>(
    rt: &R,
    alloc: Global,
    engine: &Engine<MemoryFiles>,
) -> Result<Engine<MemoryFiles>> {
    Engine::open_copies(rt, alloc, Version::V2, engine.files(), 2)
}

/// Returns the tables that a recovery gives of the files of both queues.
///
/// # Errors
///
/// Those of the recovery; `Memory`.
pub fn recover_tables<R: Threads + Sync>(
    rt: &R,
    alloc: Global,
    append: LogFiles,
    rewrite: LogFiles,
) -> Result<MemTableAccessor> {
    let append = file_segments(LogQueue::Append, Version::V2, append)?;
    let rewrite = file_segments(LogQueue::Rewrite, Version::V2, rewrite)?;
    recover_both(rt, alloc, rewrite.as_slice(), append.as_slice(), 2)
}

/// Returns copies of the files of `queue`.
///
/// # Errors
///
/// `Memory` alone.
pub fn copy_files(engine: &Engine<MemoryFiles>, queue: LogQueue) -> Result<LogFiles> {
    engine.files().copies(queue)
}

/// Returns the files with the lowest bit of the byte at position `at` of the first one changed.
pub fn flip_bit_of_first_file(mut files: LogFiles, at: usize) -> LogFiles {
    if let Some(first) = files.first_mut() {
        if let Some(byte) = first.1.get_mut(at) {
            *byte ^= 1;
        }
    }
    files
}

/// Returns how many files of `queue` an engine has.
pub fn count_files(engine: &Engine<MemoryFiles>, queue: LogQueue) -> usize {
    engine.files().files(queue).len()
}

/// Writes a batch of `parts` to `engine`, and syncs it if `sync`.
///
/// # Errors
///
/// Those of [`Engine::write`]; `Memory`.
pub fn write_parts<F: EngineFiles>(
    alloc: Global,
    engine: &mut Engine<F>,
    parts: &[Part],
    sync: bool,
) -> Result<()> {
    let mut batch = batch_of_parts(alloc, parts)?;
    engine.write(&mut batch, sync)
}

/// Writes `batch` to `engine`, and syncs it if `sync`.
///
/// # Errors
///
/// Those of [`Engine::write`]; `Failed` if the batch isn't open.
pub fn write_batch<F: EngineFiles>(
    engine: &mut Engine<F>,
    mut batch: LogBatch,
    sync: bool,
) -> Result<()> {
    if !batch.is_open() {
        return Err(Error::Failed);
    }
    engine.write(&mut batch, sync)
}

/// Begins a new append file of `engine`.
///
/// # Errors
///
/// Those of [`Engine::rotate`].
pub fn rotate<F: EngineFiles>(engine: &mut Engine<F>) -> Result<()> {
    engine.rotate()
}

/// Moves the records in append files numbered at or below `gate` to the rewrite queue.
///
/// # Errors
///
/// Those of [`Engine::rewrite`].
pub fn rewrite_up_to<F: EngineFiles>(engine: &mut Engine<F>, gate: FileSeq) -> Result<()> {
    engine.rewrite(gate)
}

/// Moves the records in rewrite files to a new rewrite file.
///
/// # Errors
///
/// Those of [`Engine::rewrite_again`].
pub fn rewrite_again<F: EngineFiles>(engine: &mut Engine<F>) -> Result<()> {
    engine.rewrite_again()
}

/// Deletes the append files that aren't needed any more. Returns how many it deleted.
///
/// # Errors
///
/// Those of [`Engine::purge_expired_files`].
pub fn purge_append_files<F: EngineFiles>(engine: &mut Engine<F>) -> Result<usize> {
    engine.purge_expired_files()
}

/// Deletes the rewrite files that aren't needed any more. Returns how many it deleted.
///
/// # Errors
///
/// Those of [`Engine::purge_rewrite_files`].
pub fn purge_rewrite_files<F: EngineFiles>(engine: &mut Engine<F>) -> Result<usize> {
    engine.purge_rewrite_files()
}

/// Returns the bytes of the entry `index` of `region`; `None` if there is none.
///
/// # Errors
///
/// Those of [`Engine::get_entry`].
pub fn get_entry<F: EngineFiles>(
    engine: &mut Engine<F>,
    region: u64,
    index: u64,
) -> Result<Option<Vec<u8>>> {
    engine.get_entry(region, index)
}

/// Fetches the entries of `region` from index `range.0` on and below `range.1`: appends the bytes of each to `entries`, and returns
/// the count of these entries. It stops before the first one with which they have more than `max_size` bytes together; but a first
/// entry larger than that is still fetched.
///
/// # Errors
///
/// Those of [`Engine::fetch_entries_to`]. `entries` is unchanged then.
pub fn fetch_entries<F: EngineFiles>(
    engine: &mut Engine<F>,
    region: u64,
    range: (u64, u64),
    max_size: Option<usize>,
    entries: &mut Vec<Vec<u8>>,
) -> Result<usize> {
    engine.fetch_entries_to(region, range.0, range.1, max_size, entries)
}

/// Returns whether a test held. `None` if it found no memory, and has to be run once more. Any other error counts as not held,
/// so only `Some(true)` means that it held.
pub fn outcome_or_retry(held: Result<bool>) -> Option<bool> {
    match held {
        Ok(held) => Some(held),
        Err(Error::Memory) => None,
        Err(_) => Some(false),
    }
}

/// Tests whether a test holds. One that found no memory is run once more, and has to hold then.
macro_rules! holds {
    ($call:expr) => {{
        let mut held = crate::calls::outcome_or_retry($call);
        if held.is_none() {
            held = crate::calls::outcome_or_retry($call);
        }
        matches!(held, Some(true))
    }};
}

pub(crate) use holds;

/// Tests whether a call returned `Corruption`.
///
/// # Errors
///
/// That of the call, unless it is `Corruption`.
pub fn is_corruption<T: Drop>(answer: Result<T>) -> Result<bool> {
    match answer {
        Ok(_) => Ok(false),
        Err(Error::Corruption(_)) => Ok(true),
        Err(e) => Err(e),
    }
}

/// Tests whether a call returned `InvalidArgument`.
///
/// # Errors
///
/// That of the call, unless it is `InvalidArgument`.
pub fn is_invalid_argument<T: Drop>(answer: Result<T>) -> Result<bool> {
    match answer {
        Ok(_) => Ok(false),
        Err(Error::InvalidArgument(_)) => Ok(true),
        Err(e) => Err(e),
    }
}
