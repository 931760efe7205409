//! The records that files give, read by an engine or by recovery.

use crate::noted_files::{LogFiles, NotedFiles};
use raft_base::{EntryIndex, Error, FileId, LogQueue, Result, Version};
use raft_engine::Engine;
use raft_files::MemoryFiles;
use raft_records::{LogBatch, entry_bytes};
use raft_recover::{MemTable, MemTableAccessor, Segment, file_segments, recover_both};
use raft_samples::{Contents, Records, table_entries};
use std::alloc::Global;
use std::collections::BTreeMap;
use std::thread::Threads;

/// How files are read.
#[derive(Clone, Copy)]
pub(crate) struct Way {
    /// In which version.
    pub(crate) version: Version,
    /// By how many workers.
    pub(crate) workers: usize,
}

/// Opens an engine over the files `append` and `rewrite` of both queues, with the version and the workers of
/// `way`. The engine's files note what it asks of them.
///
/// # Errors
///
/// Those of [`Engine::open`]; `Memory`.
pub(crate) fn open_found_files<R: Threads + Sync>(
    rt: &R,
    alloc: Global,
    way: Way,
    append: LogFiles,
    rewrite: LogFiles,
) -> Result<Engine<NotedFiles>> {
    let files = NotedFiles {
        files: MemoryFiles::found(append, rewrite),
        asks: Vec::new(alloc),
    };
    let append = files.files.copies(LogQueue::Append)?;
    let rewrite = files.files.copies(LogQueue::Rewrite)?;
    let engine = Engine::open(rt, alloc, way.version, files, append, rewrite, way.workers)?;
    Ok(engine)
}

/// Returns the records of all regions that `engine` has, read by its calls.
///
/// # Errors
///
/// Those of the engine's readings; `Memory`.
pub(crate) fn read_all_records(alloc: Global, engine: &mut Engine<NotedFiles>) -> Result<Contents> {
    let regions = regions_with_tables(alloc, engine.accessor())?;
    let mut contents = BTreeMap::new(alloc);
    for region in &regions {
        let _ = contents.insert(*region, read_region_records(alloc, engine, *region)?)?;
    }
    Ok(contents)
}

/// Returns the records of `region` that `engine` has, read by its calls.
///
/// # Errors
///
/// Those of the engine's readings; `Memory`.
fn read_region_records(
    alloc: Global,
    engine: &mut Engine<NotedFiles>,
    region: u64,
) -> Result<Records> {
    let mut records = Records::new(alloc);
    read_region_entries(alloc, engine, region, &mut records)?;
    let mut kept = Ok(());
    engine.scan(region, None, None, false, |key, value| {
        kept = put_pair_copy(alloc, &mut records, key, value);
        kept.is_ok()
    })?;
    kept?;
    Ok(records)
}

/// Reads all entries of `region` from `engine`, and adds them to `records`.
///
/// # Errors
///
/// Those of the engine's readings; `Memory`.
fn read_region_entries(
    alloc: Global,
    engine: &mut Engine<NotedFiles>,
    region: u64,
    records: &mut Records,
) -> Result<()> {
    if let (Some(first), Some(last)) = (engine.first_index(region), engine.last_index(region)) {
        let entries = fetch_entries(alloc, engine, region, first, last.saturating_add(1))?;
        for (index, text) in (first..).zip(entries) {
            let _ = records.entries.insert(index, text)?;
        }
    }
    Ok(())
}

/// Returns the bytes of the entries of `region` at the indexes `first..end`, in order, which `engine` reads.
///
/// # Errors
///
/// Those of [`Engine::fetch_entries_to`].
fn fetch_entries(
    alloc: Global,
    engine: &mut Engine<NotedFiles>,
    region: u64,
    first: u64,
    end: u64,
) -> Result<Vec<Vec<u8>>> {
    let mut entries = Vec::new(alloc);
    engine.fetch_entries_to(region, first, end, None, &mut entries)?;
    Ok(entries)
}

/// Recovers the tables of both queues from the files `append` and `rewrite`, and returns the records of all
/// regions. The bytes of entries are read at the places that the tables have, without an engine.
///
/// # Errors
///
/// Those of [`recover_both`] and of [`read_entry_bytes`].
pub(crate) fn recover_records<R: Threads + Sync>(
    rt: &R,
    alloc: Global,
    way: Way,
    append: LogFiles,
    rewrite: LogFiles,
) -> Result<Contents> {
    let files = MemoryFiles::found(append, rewrite);
    recover_records_of_files(rt, alloc, way, &files)
}

/// Recovers the tables of both queues of `files`, as `way` says, and returns the records of all regions, as
/// [`recover_records`] does.
///
/// # Errors
///
/// Those of [`recover_both`] and of [`read_entry_bytes`].
fn recover_records_of_files<R: Threads + Sync>(
    rt: &R,
    alloc: Global,
    way: Way,
    files: &MemoryFiles,
) -> Result<Contents> {
    let tables = recover_tables(rt, alloc, way, files)?;
    read_contents_of_tables(alloc, files, &tables)
}

/// Recovers the tables of both queues of `files`, with the version and the workers of `way`.
///
/// # Errors
///
/// Those of [`recover_both`]; `Memory`.
fn recover_tables<R: Threads + Sync>(
    rt: &R,
    alloc: Global,
    way: Way,
    files: &MemoryFiles,
) -> Result<MemTableAccessor> {
    let append = copy_queue_segments(way, files, LogQueue::Append)?;
    let rewrite = copy_queue_segments(way, files, LogQueue::Rewrite)?;
    recover_both(
        rt,
        alloc,
        rewrite.as_slice(),
        append.as_slice(),
        way.workers,
    )
}

/// Returns copies of the files of `queue`, each as a segment of the version of `way`.
///
/// # Errors
///
/// `Memory` alone.
fn copy_queue_segments(way: Way, files: &MemoryFiles, queue: LogQueue) -> Result<Vec<Segment>> {
    file_segments(queue, way.version, files.copies(queue)?)
}

/// Returns the records of all `tables`. The bytes of entries are read from `files`.
///
/// # Errors
///
/// Those of [`read_entry_bytes`]; `Memory`.
fn read_contents_of_tables(
    alloc: Global,
    files: &MemoryFiles,
    tables: &MemTableAccessor,
) -> Result<Contents> {
    let regions = regions_with_tables(alloc, tables)?;
    let mut contents = BTreeMap::new(alloc);
    for region in &regions {
        if let Some(table) = tables.get(*region) {
            let _ = contents.insert(*region, read_table_records(alloc, files, table)?)?;
        }
    }
    Ok(contents)
}

/// Returns the ids of the regions that have tables in `accessor`, in no set order.
///
/// # Errors
///
/// `Memory` alone.
fn regions_with_tables(alloc: Global, accessor: &MemTableAccessor) -> Result<Vec<u64>> {
    let mut regions = Vec::new(alloc);
    for table in accessor.tables()? {
        regions.push(table.region_id())?;
    }
    Ok(regions)
}

/// Puts a copy of `value` under a copy of `key` into `records`.
///
/// # Errors
///
/// `Memory` alone.
fn put_pair_copy(alloc: Global, records: &mut Records, key: &[u8], value: &[u8]) -> Result<()> {
    let (key, value) = (Vec::from_slice(alloc, key)?, Vec::from_slice(alloc, value)?);
    let _ = records.pairs.insert(key, value)?;
    Ok(())
}

/// Returns the records of `table`. The bytes of entries are read from `files`.
///
/// # Errors
///
/// Those of [`read_entry_bytes`]; `Memory`.
fn read_table_records(alloc: Global, files: &MemoryFiles, table: &MemTable) -> Result<Records> {
    let mut records = Records::new(alloc);
    for entry in &table_entries(alloc, table)? {
        let bytes = read_entry_bytes(alloc, files, entry)?;
        let _ = records.entries.insert(entry.index, bytes)?;
    }
    records.put_pairs_of_table(alloc, table)?;
    Ok(records)
}

/// Returns the bytes of `entry`, read from `files` at its place, without an engine.
///
/// # Errors
///
/// `EntryNotFound` if the files have no such place; those of decoding its block; `Memory`.
fn read_entry_bytes(alloc: Global, files: &MemoryFiles, entry: &EntryIndex) -> Result<Vec<u8>> {
    let place = entry.entries.ok_or(Error::EntryNotFound)?;
    let file = find_file_bytes(files, place.id).ok_or(Error::EntryNotFound)?;
    let (_, behind) = file
        .split_at_checked(place.offset as usize)
        .ok_or(Error::EntryNotFound)?;
    let block = behind.get(..place.len).ok_or(Error::EntryNotFound)?;
    let block = LogBatch::decode_entries_block(alloc, block, place, entry.compression_type)?;
    Ok(Vec::from_slice(alloc, entry_bytes(alloc, block.as_slice(), entry)?)?)
}

/// Returns the bytes of the file `id`, or `None` if it isn't there.
fn find_file_bytes(files: &MemoryFiles, id: FileId) -> Option<&[u8]> {
    for (seq, bytes) in files.files(id.queue) {
        if *seq == id.seq {
            return Some(bytes.as_slice());
        }
    }
    None
}
