//! Tests of entries that an engine reads: it returns the bytes that were added, in whichever file they are, and reads each
//! block once.

use crate::batches::{Part, REGION};
use crate::calls::{
    copy_files, fetch_entries, flip_bit_of_first_file, get_entry, holds, is_corruption, new_engine,
    open_copies, purge_append_files, reopen_over_copies, rewrite_up_to, rotate, write_batch,
    write_parts,
};
use crate::round_trip::{TEXTS, batch_with_text, engine_with_texts};
use raft_base::{FileBlockHandle, FileSeq, LogQueue, Version};
use raft_engine::Engine;
use raft_files::{AppendError, EngineFiles, MemoryFiles};
use raft_records::{Command, Error, LogBatch, Result};
use std::alloc::Global;
use std::thread::Threads;

/// Tests whether `get_entry` returns this text for the entry `index` of region 7. Errors: those of [`get_entry`].
fn is_entry_read(engine: &mut Engine<MemoryFiles>, index: u64, text: &str) -> Result<bool> {
    match get_entry(engine, 7, index)? {
        Some(bytes) => Ok(bytes.as_slice() == text.as_bytes()),
        None => Ok(false),
    }
}

/// Tests whether `region` has no entry `index`. Errors: those of [`get_entry`].
fn has_no_entry(engine: &mut Engine<MemoryFiles>, region: u64, index: u64) -> Result<bool> {
    Ok(get_entry(engine, region, index)?.is_none())
}

/// Tests whether each of [`TEXTS`] is returned when it is read alone, and `None` where there is no entry. Errors: those of
/// [`get_entry`].
fn are_texts_read_alone(engine: &mut Engine<MemoryFiles>) -> Result<bool> {
    for (index, text) in (1u64..).zip(&TEXTS) {
        if !is_entry_read(engine, index, text)? {
            return Ok(false);
        }
    }
    Ok(has_no_entry(engine, 7, 0)? && has_no_entry(engine, 7, 6)? && has_no_entry(engine, 8, 1)?)
}

/// Tests whether one fetch appends all of [`TEXTS`] to what was there before. Errors: those of [`fetch_entries`]; `Memory`.
fn are_texts_read_together(alloc: Global, engine: &mut Engine<MemoryFiles>) -> Result<bool> {
    let mut entries = vec![in alloc; Vec::from_slice(alloc, b"zero")?]?;
    let count = fetch_entries(engine, 7, (1, 6), None, &mut entries)?;
    Ok(count == 5 && are_zero_and_texts(&entries))
}

/// Tests whether these are `zero` and then [`TEXTS`].
fn are_zero_and_texts(entries: &[Vec<u8>]) -> bool {
    let Some((zero, found)) = entries.split_first() else {
        return false;
    };
    if zero.as_slice() != b"zero".as_slice() || found.len() != TEXTS.len() {
        return false;
    }
    for (bytes, text) in found.iter().zip(&TEXTS) {
        if bytes.as_slice() != text.as_bytes() {
            return false;
        }
    }
    true
}

/// Tests whether each of [`TEXTS`] is read alone, and all together. Errors: those of [`get_entry`] and [`fetch_entries`];
/// `Memory`.
fn are_texts_read(alloc: Global, engine: &mut Engine<MemoryFiles>) -> Result<bool> {
    Ok(are_texts_read_alone(engine)? && are_texts_read_together(alloc, engine)?)
}

/// Tests whether all texts come back once they were written, once they have moved to the rewrite queue, and once the files
/// were opened again. Errors: those of the engine's calls; `Memory`.
fn are_texts_read_in_all_states<R: Threads + Sync>(rt: &R, alloc: Global) -> Result<bool> {
    let mut engine = engine_with_texts(alloc)?;
    are_moved_texts_read(rt, alloc, &mut engine)
}

/// Tests whether all texts are read before and after they move, and by an engine that is opened again. Errors: those of the
/// engine's calls; `Memory`.
fn are_moved_texts_read<R: Threads + Sync>(
    rt: &R,
    alloc: Global,
    engine: &mut Engine<MemoryFiles>,
) -> Result<bool> {
    if !are_texts_read(alloc, engine)? {
        return Ok(false);
    }
    rewrite_up_to(engine, 2)?;
    if purge_append_files(engine)? != 2 || !are_texts_read(alloc, engine)? {
        return Ok(false);
    }
    are_reopened_texts_read(rt, alloc, engine)
}

/// Tests whether an engine that is opened over copies of the files reads all texts. Errors: the engine's, `Memory`.
fn are_reopened_texts_read<R: Threads + Sync>(
    rt: &R,
    alloc: Global,
    engine: &Engine<MemoryFiles>,
) -> Result<bool> {
    let mut found = reopen_over_copies(rt, alloc, engine)?;
    are_texts_read(alloc, &mut found)
}

/// Tests that entries are read with their bytes: from append files, from rewrite files, and after a restart.
#[test]
fn entries_are_read_as_they_were_written(rt: HostRuntime) {
    assert!(rt; holds!(are_texts_read_in_all_states(&rt, rt.alloc())));
}

/// Returns how many entries of region 7 a fetch of this range and size returns. Errors: those of [`fetch_entries`]; `Failed` if
/// it returns another number than it appends.
fn count_fetched(
    alloc: Global,
    engine: &mut Engine<MemoryFiles>,
    begin: u64,
    end: u64,
    max_size: Option<usize>,
) -> Result<usize> {
    let mut entries = Vec::new(alloc);
    let count = fetch_entries(engine, 7, (begin, end), max_size, &mut entries)?;
    if entries.len() != count {
        return Err(Error::Failed);
    }
    Ok(count)
}

/// Tests how many of the entries, which have 3, 3, 5, 0 and 4 bytes, a fetch returns with several maximal sizes. Errors: those
/// of [`count_fetched`].
fn are_fetches_limited_in(alloc: Global, engine: &mut Engine<MemoryFiles>) -> Result<bool> {
    Ok(
        count_fetched(alloc, engine, 1, 6, Some(0))? == 1
            && count_fetched(alloc, engine, 1, 6, Some(6))? == 2
            && count_fetched(alloc, engine, 1, 6, Some(11))? == 4
            && count_fetched(alloc, engine, 3, 6, Some(8))? == 2
            && count_fetched(alloc, engine, 3, 5, Some(15))? == 2,
    )
}

/// Tests whether an engine with all texts fetches what fits into a maximal size, and at least one. Errors: the engine's, `Memory`.
fn are_fetches_limited(alloc: Global) -> Result<bool> {
    let mut engine = engine_with_texts(alloc)?;
    are_fetches_limited_in(alloc, &mut engine)
}

/// Tests that a fetch returns entries up to a size, and at least one.
#[test]
fn fetches_end_at_a_maximal_size(rt: HostRuntime) {
    assert!(rt; holds!(are_fetches_limited(rt.alloc())));
}

/// Writes a compaction of region 7 to index 3. Errors: those of the engine's calls; `Memory`.
fn compact_region_7(alloc: Global, engine: &mut Engine<MemoryFiles>) -> Result<()> {
    let mut batch = LogBatch::default(alloc);
    batch.add_command(7, Command::Compact { index: 3 })?;
    write_batch(engine, batch, false)
}

/// Tests whether a fetch returned `EntryCompacted`.
fn is_refused_as_compacted(answer: Result<usize>) -> bool {
    matches!(answer, Err(Error::EntryCompacted))
}

/// Tests whether a fetch returned `EntryNotFound`.
fn is_refused_as_not_found(answer: Result<usize>) -> bool {
    matches!(answer, Err(Error::EntryNotFound))
}

/// Tests which fetches are refused if region 7 has the entries [3,6): nothing is appended then, and the engine stays intact.
/// An empty range gives no entries, nor does a region without a table. Errors: those of the engine's calls; `Memory`.
fn are_ranges_refused_in(
    engine: &mut Engine<MemoryFiles>,
    entries: &mut Vec<Vec<u8>>,
) -> Result<bool> {
    let compacted = is_refused_as_compacted(fetch_entries(engine, 7, (2, 4), None, entries));
    let missing = is_refused_as_not_found(fetch_entries(engine, 7, (3, 7), None, entries));
    let empty = fetch_entries(engine, 7, (9, 9), None, entries)?;
    let no_table = fetch_entries(engine, 8, (1, 2), None, entries)?;
    Ok(
        compacted
            && missing
            && empty == 0
            && no_table == 0
            && entries.is_empty()
            && engine.is_intact()
            && has_no_entry(engine, 7, 2)?,
    )
}

/// Compacts region 7, and tests which fetches are refused then. Errors: those of the engine's calls; `Memory`.
fn are_ranges_refused_once_compacted(
    alloc: Global,
    engine: &mut Engine<MemoryFiles>,
) -> Result<bool> {
    compact_region_7(alloc, engine)?;
    let mut entries = Vec::new(alloc);
    are_ranges_refused_in(engine, &mut entries)
}

/// Tests which fetches an engine that wrote all texts refuses once region 7 is compacted. Errors: the engine's, `Memory`.
fn are_ranges_refused(alloc: Global) -> Result<bool> {
    let mut engine = engine_with_texts(alloc)?;
    are_ranges_refused_once_compacted(alloc, &mut engine)
}

/// Tests that ranges below the first entry or beyond the last one are refused, each with its error.
#[test]
fn ranges_without_entries_are_refused(rt: HostRuntime) {
    assert!(rt; holds!(are_ranges_refused(rt.alloc())));
}

/// Opens an engine over the files of [`engine_with_texts`], with the first byte of the first entry changed: it stands after the 16
/// bytes of the batch's header. Errors: those of the engine's calls; `Memory`.
fn open_damaged_texts<R: Threads + Sync>(rt: &R, alloc: Global) -> Result<Engine<MemoryFiles>> {
    let engine = engine_with_texts(alloc)?;
    open_with_changed_byte(rt, alloc, &engine)
}

/// Opens an engine over copies of the files, with the byte 16 of the first one changed. Errors: those of the opening; `Memory`.
fn open_with_changed_byte<R: Threads + Sync>(
    rt: &R,
    alloc: Global,
    engine: &Engine<MemoryFiles>,
) -> Result<Engine<MemoryFiles>> {
    let append = flip_bit_of_first_file(copy_files(engine, LogQueue::Append)?, 16);
    open_copies(rt, alloc, append, copy_files(engine, LogQueue::Rewrite)?)
}

/// Tests whether a fetch of all entries is refused as damage, and appends none. Errors: that of the fetch, unless it is
/// `Corruption`; `Memory`.
fn is_fetch_of_all_refused(alloc: Global, engine: &mut Engine<MemoryFiles>) -> Result<bool> {
    let mut entries = Vec::new(alloc);
    let refused = is_corruption(fetch_entries(engine, 7, (1, 6), None, &mut entries))?;
    Ok(refused && entries.is_empty())
}

/// Tests whether `engine` refuses the damaged entry, alone and in a fetch, and returns the others. Errors: those of reads that
/// are refused for another reason than damage; `Memory`.
fn is_damage_found_in(alloc: Global, engine: &mut Engine<MemoryFiles>) -> Result<bool> {
    let alone = is_corruption(get_entry(engine, 7, 1))?;
    Ok(
        alone
            && is_fetch_of_all_refused(alloc, engine)?
            && engine.is_intact()
            && count_fetched(alloc, engine, 2, 6, None)? == 4,
    )
}

/// Tests whether a damaged entry isn't returned, and the engine stays intact and returns the others. Errors: those of the
/// engine's calls; `Memory`.
fn is_damage_found<R: Threads + Sync>(rt: &R, alloc: Global) -> Result<bool> {
    let mut engine = open_damaged_texts(rt, alloc)?;
    is_damage_found_in(alloc, &mut engine)
}

/// Tests that an entry whose bytes are damaged is refused, and the others are read.
#[test]
fn damaged_entries_are_not_read(rt: HostRuntime) {
    assert!(rt; holds!(is_damage_found(&rt, rt.alloc())));
}

/// Tests whether an engine goes on after the read of a damaged entry was refused: it writes, syncs and begins a file, and a
/// restart finds what isn't damaged. Errors: those of the engine's calls; `Memory`.
fn does_engine_go_on_after_damage<R: Threads + Sync>(rt: &R, alloc: Global) -> Result<bool> {
    let mut engine = open_damaged_texts(rt, alloc)?;
    does_damaged_engine_go_on(rt, alloc, &mut engine)
}

/// Reads the damaged entry, writes one more, and begins a file. Tests whether a restart finds the five that are
/// whole. Errors: those of the engine's calls; `Memory`.
fn does_damaged_engine_go_on<R: Threads + Sync>(
    rt: &R,
    alloc: Global,
    engine: &mut Engine<MemoryFiles>,
) -> Result<bool> {
    if !is_corruption(get_entry(engine, 7, 1))? {
        return Ok(false);
    }
    write_batch(engine, batch_with_text(alloc, 6, "six")?, true)?;
    rotate(engine)?;
    Ok(count_fetched_reopened(rt, alloc, engine)? == 5)
}

/// Returns how many of the entries from index 2 on an engine returns that is opened over copies of the files. Errors: those
/// of the engine's calls; `Memory`.
fn count_fetched_reopened<R: Threads + Sync>(
    rt: &R,
    alloc: Global,
    engine: &Engine<MemoryFiles>,
) -> Result<usize> {
    let mut found = reopen_over_copies(rt, alloc, engine)?;
    count_fetched(alloc, &mut found, 2, 7, None)
}

/// Tests that an engine writes on after it refused to read a damaged entry.
#[test]
fn an_engine_goes_on_after_a_damaged_read(rt: HostRuntime) {
    assert!(rt; holds!(does_engine_go_on_after_damage(&rt, rt.alloc())));
}

/// Files in memory that count their reads.
#[derive(Drop)]
pub struct CountedFiles {
    /// The files.
    pub files: MemoryFiles,
    /// How many reads succeeded so far.
    pub reads: usize,
}

impl EngineFiles for CountedFiles {
    ghost asked = { λ f. f.files };

    /// Appends `bytes` to the last file of `queue`.
    ///
    /// # Errors
    ///
    /// Those of the files in memory.
    fn append(&mut self, queue: LogQueue, bytes: &[u8]) -> std::result::Result<(), AppendError> {
        self.files.append(queue, bytes)
    }

    /// Begins the file `seq` of `queue`.
    ///
    /// # Errors
    ///
    /// Those of the files in memory.
    fn rotate(&mut self, queue: LogQueue, seq: FileSeq) -> Result<()> {
        self.files.rotate(queue, seq)
    }

    /// Syncs `queue`.
    ///
    /// # Errors
    ///
    /// Those of the files in memory.
    fn sync(&mut self, queue: LogQueue) -> Result<()> {
        self.files.sync(queue)
    }

    /// Deletes the oldest file of `queue`.
    ///
    /// # Errors
    ///
    /// Those of the files in memory.
    fn delete_oldest(&mut self, queue: LogQueue) -> Result<()> {
        self.files.delete_oldest(queue)
    }

    /// Cuts the last file of `queue` to `len` bytes.
    ///
    /// # Errors
    ///
    /// Those of the files in memory.
    fn truncate(&mut self, queue: LogQueue, len: u64) -> Result<()> {
        self.files.truncate(queue, len)
    }

    /// Returns the bytes at `place`, and counts the read.
    ///
    /// # Errors
    ///
    /// Those of the files in memory. Such a read isn't counted.
    fn read(&mut self, place: FileBlockHandle) -> Result<Vec<u8>> {
        let bytes = self.files.read(place)?;
        self.reads = self.reads.saturating_add(1);
        Ok(bytes)
    }
}

/// Makes a new engine over files that count their reads. Errors: those of [`Engine::new`].
pub fn new_engine_counting_reads(alloc: Global) -> Result<Engine<CountedFiles>> {
    let files = CountedFiles {
        files: MemoryFiles::new(alloc),
        reads: 0,
    };
    Engine::new(alloc, Version::V2, files)
}

/// Tests how many reads are made for entries of both batches, for one entry, and for one that isn't there. Errors: those of
/// the engine's calls; `Memory`.
fn are_reads_counted(
    engine: &mut Engine<CountedFiles>,
    entries: &mut Vec<Vec<u8>>,
) -> Result<bool> {
    let count = fetch_entries(engine, REGION, (2, 7), None, entries)?;
    let together = engine.files().reads;
    let found = get_entry(engine, REGION, 3)?.is_some();
    let alone = engine.files().reads;
    let none = get_entry(engine, REGION, 7)?.is_none();
    let all = engine.files().reads;
    Ok(count == 5 && together == 2 && found && alone == 3 && none && all == 3)
}

/// Writes four entries in one batch and two in the next. Tests whether the engine reads each block once. Errors: those of the
/// engine's calls; `Memory`.
fn are_written_and_counted(alloc: Global, engine: &mut Engine<CountedFiles>) -> Result<bool> {
    write_parts(alloc, engine, &[Part::Entries(1, 5)], false)?;
    write_parts(alloc, engine, &[Part::Entries(5, 7)], false)?;
    let mut entries = Vec::new(alloc);
    are_reads_counted(engine, &mut entries)
}

/// Tests whether a new engine reads each block of two batches once. Errors: those of the engine's calls; `Memory`.
fn are_blocks_read_once(alloc: Global) -> Result<bool> {
    let mut engine = new_engine_counting_reads(alloc)?;
    are_written_and_counted(alloc, &mut engine)
}

/// Tests that entries of one block are read from the files by one read.
#[test]
fn blocks_are_read_once(rt: HostRuntime) {
    assert!(rt; holds!(are_blocks_read_once(rt.alloc())));
}

/// Adds a put of an empty value under `key` of the tests' region.
///
/// # Errors
///
/// `Failed` if the batch isn't open; `Memory`.
fn put_key(alloc: Global, batch: &mut LogBatch, key: &[u8]) -> Result<()> {
    if !batch.is_open() {
        return Err(Error::Failed);
    }
    batch.put(REGION, Vec::from_slice(alloc, key)?, Vec::new(alloc))
}

/// Returns a batch that puts the keys `3`, `1` and `2`. Errors: those of [`put_keys`].
fn batch_of_keys(alloc: Global) -> Result<LogBatch> {
    let mut batch = LogBatch::default(alloc);
    put_keys(alloc, &mut batch)?;
    Ok(batch)
}

/// Adds puts of the keys `3`, `1` and `2`, in this order.
///
/// # Errors
///
/// Those of [`put_key`].
fn put_keys(alloc: Global, batch: &mut LogBatch) -> Result<()> {
    put_key(alloc, batch, b"3")?;
    put_key(alloc, batch, b"1")?;
    put_key(alloc, batch, b"2")
}

/// Returns an engine with the keys `1`, `2` and `3`. Errors: those of the engine's calls; `Memory`.
fn engine_with_keys(alloc: Global) -> Result<Engine<MemoryFiles>> {
    let mut engine = new_engine(alloc)?;
    write_keys(alloc, &mut engine)?;
    Ok(engine)
}

/// Writes the batch of [`batch_of_keys`]. Errors: those of the engine's calls; `Memory`.
fn write_keys(alloc: Global, engine: &mut Engine<MemoryFiles>) -> Result<()> {
    write_batch(engine, batch_of_keys(alloc)?, false)
}

/// Returns the keys of a region that a scan visits, in order, as the digits of a number. Errors: those of [`Engine::scan`].
fn scan_keys_as_digits(
    engine: &Engine<MemoryFiles>,
    region: u64,
    start: Option<&[u8]>,
    reverse: bool,
) -> Result<u64> {
    let mut seen = 0u64;
    engine.scan(region, start, None, reverse, |key, _| {
        let digit = key.first().map_or(0, |byte| u64::from(*byte & 15));
        seen = seen.wrapping_mul(10).wrapping_add(digit);
        true
    })?;
    Ok(seen)
}

/// Tests whether scans visit the keys of `engine` in both orders and from a key on, and none of another region. Errors: those
/// of [`Engine::scan`].
fn are_keys_scanned_in(engine: &Engine<MemoryFiles>) -> Result<bool> {
    Ok(
        scan_keys_as_digits(engine, REGION, None, false)? == 123
            && scan_keys_as_digits(engine, REGION, None, true)? == 321
            && scan_keys_as_digits(engine, REGION, Some(b"2"), false)? == 23
            && scan_keys_as_digits(engine, 8, None, false)? == 0,
    )
}

/// Tests whether scans visit the three keys that an engine wrote, in both orders. Errors: the engine's, `Memory`.
fn are_keys_scanned(alloc: Global) -> Result<bool> {
    let engine = engine_with_keys(alloc)?;
    are_keys_scanned_in(&engine)
}

/// Tests that a scan visits keys in their order, also in reverse and from a key on.
#[test]
fn keys_are_scanned_in_order(rt: HostRuntime) {
    assert!(rt; holds!(are_keys_scanned(rt.alloc())));
}
