//! Tests of the round trip: an engine is written, goes on, is opened, and is recovered from its append files.

use crate::batches::batch_with_entry;
use crate::calls::{
    LogFiles, copy_files, holds, is_corruption, is_invalid_argument, new_engine, open_copies,
    rewrite_up_to, rotate, write_batch,
};
use raft_engine::Engine;
use raft_files::{EngineFiles, MemoryFiles};
use raft_memtable::{EntryIndex, MemTableAccessor};
use raft_records::{
    Command, Error, FileBlockHandle, FileId, FilePart, FileSeq, LogBatch, LogFileContext, LogQueue,
    Result, Version, entries_block_in, entry_bytes,
};
use raft_recover::recovered::recovered_text;
use raft_recover::{Segment, recover, recover_both};
use std::alloc::Global;
use std::thread::Threads;

pub(crate) const WRITTEN: &str = "\
7 entries 1..2 keys 1 append 1 rewrite -
cleaned 8
live 2 0
";

const REWRITTEN: &str = "\
7 entries 1..2 keys 1 append - rewrite 4
cleaned -
live 0 2
";

const MOVED: &str = "\
7 entries 1..2 keys 1 append - rewrite 4
cleaned 8
live 0 2
";

/// Returns an open batch with entry 1 of region 7, whose bytes are `x`, and a put of `k=v`. Errors: those of the batch's calls;
/// `Memory`.
pub(crate) fn batch_of_entry_and_key(alloc: Global) -> Result<LogBatch> {
    let mut batch = batch_with_entry(alloc, 7, 1, Vec::from_slice(alloc, b"x")?)?;
    batch.put(
        7,
        Vec::from_slice(alloc, b"k")?,
        Vec::from_slice(alloc, b"v")?,
    )?;
    Ok(batch)
}

/// Returns an open batch with a `Clean` of region 8. Errors: `Memory`.
pub(crate) fn batch_cleaning_region_8(alloc: Global) -> Result<LogBatch> {
    let mut batch = LogBatch::default(alloc);
    batch.add_command(8, Command::Clean)?;
    Ok(batch)
}

/// Gives the items of a batch their places in file 4 of the rewrite queue. Errors: `Failed` for one that isn't open; `Memory`; `Full`.
fn with_places_in_rewrite_file_4(mut batch: LogBatch) -> Result<LogBatch> {
    if !batch.is_open() {
        return Err(Error::Failed);
    }
    let file = LogFileContext::new(FileId::new(LogQueue::Rewrite, 4), Version::V2);
    let len = batch.finish_populate()?;
    batch.prepare_write(&file);
    batch.finish_write(FileBlockHandle {
        id: file.id,
        offset: 0,
        len,
    });
    Ok(batch)
}

/// Tests whether the tables of `accessor` are printed as `lines`. Errors: `Memory`.
pub(crate) fn are_lines_printed(
    alloc: Global,
    accessor: &MemTableAccessor,
    lines: &str,
) -> Result<bool> {
    Ok(recovered_text(alloc, accessor)?.as_str() == lines)
}

/// Returns an engine with two append files: the first has [`batch_of_entry_and_key`], the second [`batch_cleaning_region_8`].
/// Errors: those of the engine's calls; `Memory`.
pub(crate) fn engine_with_two_files(alloc: Global) -> Result<Engine<MemoryFiles>> {
    let mut engine = new_engine(alloc)?;
    write_both_files(alloc, &mut engine)?;
    Ok(engine)
}

/// Writes two batches, each to an append file of its own. Errors: those of the engine's calls; `Memory`.
fn write_both_files(alloc: Global, engine: &mut Engine<MemoryFiles>) -> Result<()> {
    write_batch(engine, batch_of_entry_and_key(alloc)?, false)?;
    rotate(engine)?;
    write_batch(engine, batch_cleaning_region_8(alloc)?, false)
}

/// Cites the law that says what a recovery of the files of `engine` gives.
fn cite_law_of_recovery(engine: &Engine<MemoryFiles>) {
    engine.what_was_written_is_recovered();
}

/// Returns copies of the files of `queue`, each as a segment. Errors: `Memory`.
fn copy_segments(engine: &Engine<MemoryFiles>, queue: LogQueue) -> Result<Vec<Segment>> {
    engine.segments(queue)
}

/// Returns the tables that a recovery of the append files by `workers` threads gives. Errors: those of the recovery; `Memory`.
fn recover_by_workers<R: Threads + Sync>(
    rt: &R,
    alloc: Global,
    engine: &Engine<MemoryFiles>,
    workers: usize,
) -> Result<MemTableAccessor> {
    let append = copy_segments(engine, LogQueue::Append)?;
    recover(rt, alloc, append.as_slice(), LogQueue::Append, workers)
}

/// Tests whether a recovery of the append files by `workers` threads gives the tables that were written. Errors: those of the
/// recovery; `Memory`.
fn is_recovered_by_workers<R: Threads + Sync>(
    rt: &R,
    alloc: Global,
    engine: &Engine<MemoryFiles>,
    workers: usize,
) -> Result<bool> {
    let tables = recover_by_workers(rt, alloc, engine, workers)?;
    are_lines_printed(alloc, &tables, WRITTEN)
}

/// Returns the tables that a recovery of both queues gives. Errors: those of the recovery; `Memory`.
fn recover_both_queues<R: Threads + Sync>(
    rt: &R,
    alloc: Global,
    engine: &Engine<MemoryFiles>,
) -> Result<MemTableAccessor> {
    let append = copy_segments(engine, LogQueue::Append)?;
    let rewrite = copy_segments(engine, LogQueue::Rewrite)?;
    recover_both(rt, alloc, rewrite.as_slice(), append.as_slice(), 2)
}

/// Tests whether a recovery of both queues gives the tables that were written. Errors: those of the recovery; `Memory`.
fn is_recovered_from_both<R: Threads + Sync>(
    rt: &R,
    alloc: Global,
    engine: &Engine<MemoryFiles>,
) -> Result<bool> {
    let tables = recover_both_queues(rt, alloc, engine)?;
    are_lines_printed(alloc, &tables, WRITTEN)
}

/// Tests whether an engine has the tables that were written, and so have recoveries of its append files and of both queues.
/// Errors: those of the engine's calls and of the recovery; `Memory`.
fn are_written_tables_recovered<R: Threads + Sync>(rt: &R, alloc: Global) -> Result<bool> {
    let engine = engine_with_two_files(alloc)?;
    are_tables_recovered_from(rt, alloc, &engine)
}

/// Tests whether `engine` has the tables that were written, and recoveries by one and four workers, and of both
/// queues, give them. Errors: those of the recovery; `Memory`.
fn are_tables_recovered_from<R: Threads + Sync>(
    rt: &R,
    alloc: Global,
    engine: &Engine<MemoryFiles>,
) -> Result<bool> {
    cite_law_of_recovery(engine);
    Ok(
        engine.is_intact()
            && are_lines_printed(alloc, engine.accessor(), WRITTEN)?
            && is_recovered_by_workers(rt, alloc, engine, 4)?
            && is_recovered_by_workers(rt, alloc, engine, 1)?
            && is_recovered_from_both(rt, alloc, engine)?,
    )
}

/// Returns the append files of an engine, with their bytes. Errors: `Memory`.
pub(crate) fn copy_append_files(alloc: Global, engine: &Engine<MemoryFiles>) -> Result<LogFiles> {
    let segments = copy_segments(engine, LogQueue::Append)?;
    let mut files = Vec::new(alloc);
    for segment in &segments {
        push_segment_files(alloc, &mut files, segment.as_slice())?;
    }
    Ok(files)
}

/// Appends copies of the parts of `segment` to `files`, each as a file. Errors: `Memory`.
fn push_segment_files(alloc: Global, files: &mut LogFiles, segment: &[FilePart]) -> Result<()> {
    for part in segment {
        files.push((part.id().seq, Vec::from_slice(alloc, part.bytes())?))?;
    }
    Ok(())
}

/// Returns the append files of the engine of [`engine_with_two_files`]. Errors: those of the engine's calls; `Memory`.
fn copy_written_files(alloc: Global) -> Result<LogFiles> {
    let engine = engine_with_two_files(alloc)?;
    copy_append_files(alloc, &engine)
}

/// Returns the number of the last append file; `None` if there is none.
fn last_append_seq(engine: &Engine<MemoryFiles>) -> Option<FileSeq> {
    match engine.files().files(LogQueue::Append).last() {
        Some(file) => Some(file.0),
        None => None,
    }
}

/// Tests whether an engine that is opened over the append files alone has the tables that were written, and so has a recovery
/// of its append files. Errors: those of the engine's calls, the opening and the recovery; `Memory`.
fn is_opened_with_written_tables<R: Threads + Sync>(rt: &R, alloc: Global) -> Result<bool> {
    let engine = open_copies(rt, alloc, copy_written_files(alloc)?, Vec::new(alloc))?;
    has_written_tables(rt, alloc, &engine)
}

/// Tests whether `engine` has the tables that were written, and recoveries of its append files give them. Errors: those of
/// the recovery; `Memory`.
fn has_written_tables<R: Threads + Sync>(
    rt: &R,
    alloc: Global,
    engine: &Engine<MemoryFiles>,
) -> Result<bool> {
    cite_law_of_recovery(engine);
    Ok(
        engine.is_intact()
            && last_append_seq(engine) == Some(2)
            && are_lines_printed(alloc, engine.accessor(), WRITTEN)?
            && is_recovered_by_workers(rt, alloc, engine, 4)?,
    )
}

/// Returns the tables that a recovery of the append files of [`engine_with_two_files`] gives. Errors: those of the engine's
/// calls and of the recovery; `Memory`.
fn recover_written_tables<R: Threads + Sync>(rt: &R, alloc: Global) -> Result<MemTableAccessor> {
    let engine = engine_with_two_files(alloc)?;
    recover_by_workers(rt, alloc, &engine, 1)
}

/// Moves the records of region 7 in `tables` to file 4 of the rewrite queue. Errors: those of the tables; `Memory`.
fn rewrite_records(alloc: Global, tables: &mut MemTableAccessor) -> Result<()> {
    let mut moved = with_places_in_rewrite_file_4(batch_of_entry_and_key(alloc)?)?;
    tables.apply_rewrite_writes(moved.drain(), Some(1), 4)
}

/// Takes the cleaned regions of `tables`. Tests whether there were some. Errors: those of the tables; `Memory`.
fn are_cleaned_regions_handed_out(tables: &mut MemTableAccessor) -> Result<bool> {
    let logs = tables.take_cleaned_region_logs()?;
    Ok(!logs.is_empty())
}

/// Moves the records in `tables`. Tests whether they hand out the cleaned regions, and print the lines after the
/// move. Errors: those of the tables; `Memory`.
fn are_records_rewritten(alloc: Global, tables: &mut MemTableAccessor) -> Result<bool> {
    rewrite_records(alloc, tables)?;
    Ok(are_cleaned_regions_handed_out(tables)? && are_lines_printed(alloc, tables, REWRITTEN)?)
}

/// Tests whether recovered tables take a rewriting that moves their records, and hand out the cleaned regions. Errors: those
/// of the engine's calls, the recovery and the tables; `Memory`.
fn do_recovered_tables_take_rewriting<R: Threads + Sync>(rt: &R, alloc: Global) -> Result<bool> {
    let mut tables = recover_written_tables(rt, alloc)?;
    are_records_rewritten(alloc, &mut tables)
}

/// Tests whether an engine moves its records to file 4 of the rewrite queue, and a recovery of its append files still gives
/// the places that they had there. Errors: the engine's, the opening's, the recovery's, `Memory`.
fn are_records_moved_to_file_4<R: Threads + Sync>(rt: &R, alloc: Global) -> Result<bool> {
    let mut engine = open_with_rewrite_file_4(rt, alloc)?;
    do_records_move(rt, alloc, &mut engine)
}

/// Opens an engine over the append files of [`engine_with_two_files`], and an empty rewrite file 4. Errors: those of the
/// engine's calls; `Memory`.
fn open_with_rewrite_file_4<R: Threads + Sync>(
    rt: &R,
    alloc: Global,
) -> Result<Engine<MemoryFiles>> {
    let files = copy_written_files(alloc)?;
    open_copies(rt, alloc, files, vec![in alloc; (4, Vec::new(alloc))]?)
}

/// Moves the records of append file 1. Tests whether `engine` has them in the rewrite queue, and its append files
/// still give them. Errors: those of the engine's calls and of the recovery; `Memory`.
fn do_records_move<R: Threads + Sync>(
    rt: &R,
    alloc: Global,
    engine: &mut Engine<MemoryFiles>,
) -> Result<bool> {
    rewrite_up_to(engine, 1)?;
    cite_law_of_recovery(engine);
    Ok(
        are_lines_printed(alloc, engine.accessor(), MOVED)?
            && is_recovered_by_workers(rt, alloc, engine, 4)?,
    )
}

/// Tests that an engine has the tables that were written, and so have recoveries of its files.
#[test]
fn what_was_written_is_recovered(rt: HostRuntime) {
    assert!(rt; holds!(are_written_tables_recovered(&rt, rt.alloc())));
}

/// Tests that an opening of the append files alone gives the tables that were written.
#[test]
fn written_files_are_opened_with_their_tables(rt: HostRuntime) {
    assert!(rt; holds!(is_opened_with_written_tables(&rt, rt.alloc())));
}

/// Tests that tables of a recovery take a rewriting, and hand out their cleaned regions.
#[test]
fn recovered_tables_take_a_rewriting(rt: HostRuntime) {
    assert!(rt; holds!(do_recovered_tables_take_rewriting(&rt, rt.alloc())));
}

/// Tests that an engine moves records to the rewrite file that it found, and its append files still have them.
#[test]
fn an_engine_moves_records_to_the_rewrite_queue(rt: HostRuntime) {
    assert!(rt; holds!(are_records_moved_to_file_4(&rt, rt.alloc())));
}

/// Tests whether files refuse to begin an append file with the number `seq`, which isn't above that of the last one, and stay
/// as they are. Errors: those of the engine's calls; `Memory`.
fn is_number_refused(alloc: Global, seq: FileSeq) -> Result<bool> {
    let engine = engine_with_two_files(alloc)?;
    let mut files = MemoryFiles::found(copy_files(&engine, LogQueue::Append)?, Vec::new(alloc));
    are_files_unchanged_by_refused_rotation(alloc, &mut files, &engine, seq)
}

/// Tests whether `files` refuse to begin the append file `seq`, and have the same files as before. Errors: that of the files,
/// unless it is `InvalidArgument`; `Memory`.
fn are_files_unchanged_by_refused_rotation(
    alloc: Global,
    files: &mut MemoryFiles,
    engine: &Engine<MemoryFiles>,
    seq: FileSeq,
) -> Result<bool> {
    if !is_invalid_argument(files.rotate(LogQueue::Append, seq))? {
        return Ok(false);
    }
    Ok(*files.files(LogQueue::Append) == copy_append_files(alloc, engine)?)
}

/// Tests that a new file needs a number above that of the last one.
#[test]
fn a_number_that_is_not_above_the_last_one_is_refused(rt: HostRuntime) {
    for seq in 0..3 {
        assert!(rt; holds!(is_number_refused(rt.alloc(), seq)), "number {seq}");
    }
}

/// Numbers of empty append files, and whether an engine can be opened over them.
static NUMBERS: [(&[FileSeq], bool); 8] = [
    (&[0], true),
    (&[3, 4, 5], true),
    (&[1, 3], false),
    (&[1, 2, 4], false),
    (&[1, 1], false),
    (&[2, 1], false),
    (&[1, 2, 2], false),
    (&[3, 4, 1], false),
];

/// Tests whether an engine can be opened over empty append files with these numbers, or they are refused as damage, as
/// `is_opened` says. Errors: that of the opening, unless it is `Corruption`; `Memory`.
fn are_file_numbers_accepted_as_expected<R: Threads + Sync>(
    rt: &R,
    alloc: Global,
    numbers: &[FileSeq],
    is_opened: bool,
) -> Result<bool> {
    let mut files = Vec::new(alloc);
    for seq in numbers {
        files.push((*seq, Vec::new(alloc)))?;
    }
    let is_damage = is_corruption(open_copies(rt, alloc, files, Vec::new(alloc)))?;
    Ok(is_damage != is_opened)
}

/// Tests which lists of file numbers an opening takes.
#[test]
fn files_are_opened_whose_numbers_are_consecutive(rt: HostRuntime) {
    for (numbers, is_opened) in &NUMBERS {
        assert!(rt;
            holds!(are_file_numbers_accepted_as_expected(&rt, rt.alloc(), numbers, *is_opened)),
            "{numbers:?}"
        );
    }
}

/// Tests whether an engine goes on to 300 append files. Errors: those of the engine's calls; `Memory`.
fn can_have_300_files(alloc: Global) -> Result<bool> {
    let mut engine = new_engine(alloc)?;
    does_rotate_to_300_files(&mut engine)
}

/// Begins append files up to number 300. Tests whether all of them are there. Errors: those of [`rotate`]; `Memory`.
fn does_rotate_to_300_files(engine: &mut Engine<MemoryFiles>) -> Result<bool> {
    for _ in 2..=300 {
        rotate(engine)?;
    }
    Ok(
        last_append_seq(engine) == Some(300)
            && copy_segments(engine, LogQueue::Append)?.len() == 300,
    )
}

/// Tests that an engine can have hundreds of append files.
#[test]
fn an_engine_goes_on_to_300_append_files(rt: HostRuntime) {
    assert!(rt; holds!(can_have_300_files(rt.alloc())));
}

/// Returns a batch with one entry of region 7, which has this text. Errors: those of [`batch_with_entry`].
pub(crate) fn batch_with_text(alloc: Global, index: u64, text: &str) -> Result<LogBatch> {
    batch_with_entry(alloc, 7, index, Vec::from_slice(alloc, text.as_bytes())?)
}

/// The texts of the entries from index 1 on, two in each file.
pub(crate) static TEXTS: [&str; 5] = ["one", "two", "three", "", "five"];

/// Returns an engine that wrote [`TEXTS`] as entries of region 7, a batch each. Errors: those of the engine's calls; `Memory`.
pub(crate) fn engine_with_texts(alloc: Global) -> Result<Engine<MemoryFiles>> {
    let mut engine = new_engine(alloc)?;
    write_each_text(alloc, &mut engine)?;
    Ok(engine)
}

/// Writes each of [`TEXTS`] as an entry, and begins a new file after each second one. Errors: the engine's, `Memory`.
fn write_each_text(alloc: Global, engine: &mut Engine<MemoryFiles>) -> Result<()> {
    for (index, text) in (1u64..).zip(&TEXTS) {
        write_batch(engine, batch_with_text(alloc, index, text)?, false)?;
        if index % 2 == 0 {
            rotate(engine)?;
        }
    }
    Ok(())
}

/// Tests whether the append files have this text at the place that the engine's table has for the entry `index`. Errors:
/// `Corruption` if the block at the place is damaged; `Memory`.
fn is_text_at_place(
    alloc: Global,
    engine: &Engine<MemoryFiles>,
    index: u64,
    text: &str,
) -> Result<bool> {
    let Some(entry) = engine
        .accessor()
        .get(7)
        .and_then(|table| table.get_entry(index))
    else {
        return Ok(false);
    };
    let Some(place) = entry.entries else {
        return Ok(false);
    };
    let segments = copy_segments(engine, LogQueue::Append)?;
    for segment in &segments {
        for part in segment {
            if part.id() == place.id {
                return is_text_in_part(alloc, part, place, &entry, text);
            }
        }
    }
    Ok(false)
}

/// Tests whether a file has this text at the place of an entry. Errors: `Corruption` if the block at the place is damaged;
/// `Memory`.
fn is_text_in_part(
    alloc: Global,
    part: &FilePart,
    place: FileBlockHandle,
    entry: &EntryIndex,
    text: &str,
) -> Result<bool> {
    let block = entries_block_in(part, place)?;
    Ok(entry_bytes(alloc, block, entry)? == text.as_bytes())
}

/// Tests whether the append files of `engine` have each of [`TEXTS`] at the place of its entry. Errors: those of
/// [`is_text_at_place`].
fn are_texts_at_places_of(alloc: Global, engine: &Engine<MemoryFiles>) -> Result<bool> {
    for (index, text) in (1u64..).zip(&TEXTS) {
        if !is_text_at_place(alloc, engine, index, text)? {
            return Ok(false);
        }
    }
    Ok(true)
}

/// Tests whether the append files have each of [`TEXTS`] at the place of its entry. Errors: the engine's, `Memory`.
fn are_texts_at_places(alloc: Global) -> Result<bool> {
    let engine = engine_with_texts(alloc)?;
    are_texts_at_places_of(alloc, &engine)
}

/// Tests that the append files have the bytes of each entry at the place that the tables name.
#[test]
fn the_bytes_of_entries_stand_at_their_places(rt: HostRuntime) {
    assert!(rt; holds!(are_texts_at_places(rt.alloc())));
}
