//! Changes of one table, and what is fetched of it.

use crate::calls::Call;
use crate::found::{Found, answer_word, call_twice, is_lack_of_memory};
use crate::seen::summarize_tables;
use raft_memtable::{
    EntryIndex, Error, FileBlockHandle, FileId, FileSeq, LogQueue, MemTable, MemTableAccessor,
    Result, TableChange,
};
use raft_records::CompressionType;
use std::alloc::Global;

/// The region whose table is changed.
pub(crate) const REGION: u64 = 5;

/// A change of the table.
#[derive(Clone, Copy)]
pub(crate) enum Change {
    /// Entries are appended, from an index on and below another, in an append file.
    Append(u64, u64, FileSeq),
    /// Entries are rewritten, from an index on and below another, to a rewrite file, with a gate.
    Rewrite(u64, u64, FileSeq, Option<FileSeq>),
    /// A key is put, in an append file.
    Put(&'static [u8], FileSeq),
    /// A key is rewritten, with a gate, to a rewrite file.
    RewriteKey(&'static [u8], Option<FileSeq>, FileSeq),
    /// A key is deleted.
    Delete(&'static [u8]),
    /// The table is compacted to an index.
    Compact(u64),
    /// The table is truncated at an index.
    Truncate(u64),
}

/// The calls of the row `tables`, each a list of changes of an empty table.
pub(crate) static CHANGES: [Call; 8] = [
    Call::Change(&[
        Change::Append(10, 20, 1),
        Change::Append(20, 30, 2),
        Change::Append(25, 35, 3),
        Change::Append(10, 40, 4),
    ]),
    Call::Change(&[Change::Append(10, 20, 1), Change::Append(21, 22, 1)]),
    Call::Change(&[
        Change::Append(0, 25, 1),
        Change::Compact(5),
        Change::Compact(20),
        Change::Compact(20),
    ]),
    Call::Change(&[
        Change::Append(0, 10, 1),
        Change::Append(10, 20, 2),
        Change::Rewrite(0, 15, 50, Some(1)),
        Change::Rewrite(5, 10, 51, None),
        Change::Rewrite(12, 13, 52, Some(9)),
        Change::Rewrite(3, 12, 52, Some(9)),
    ]),
    Call::Change(&[
        Change::Append(10, 20, 1),
        Change::Append(20, 30, 2),
        Change::Append(25, 35, 3),
        Change::Compact(22),
        Change::Rewrite(22, 27, 50, Some(2)),
    ]),
    Call::Change(&[Change::Append(10, 12, 1), Change::Append(12, 14, 1)]),
    Call::Change(&[
        Change::Put(b"k", 2),
        Change::RewriteKey(b"k", Some(1), 50),
        Change::RewriteKey(b"k", Some(2), 50),
        Change::RewriteKey(b"k", None, 40),
        Change::RewriteKey(b"k", None, 51),
        Change::Delete(b"k"),
    ]),
    Call::Change(&[
        Change::Append(0, 25, 1),
        Change::Truncate(20),
        Change::Truncate(20),
        Change::Truncate(0),
    ]),
];

/// Makes `changes` of an empty table, one after another. Adds a line for each with its result and what the
/// table has then, and an empty line.
///
/// # Errors
///
/// `Memory` alone. Any other error is a result in its line.
pub(crate) fn make_all_changes(found: &mut Found, changes: &[Change]) -> Result<()> {
    let mut tables = MemTableAccessor::new(found.alloc)?;
    for change in changes {
        change_and_retry(found, &mut tables, *change)?;
    }
    found.append_line("")
}

/// Makes `change`, and adds a line with its result and what the table has then. If it returns `Memory`, tries
/// once more. Notes in `found` whether all tables are unchanged after any error.
///
/// # Errors
///
/// `Memory` alone.
fn change_and_retry(
    found: &mut Found,
    tables: &mut MemTableAccessor,
    change: Change,
) -> Result<()> {
    let before = summarize_tables(tables);
    let answer =
        call_twice!(found; apply_change(found.alloc, tables, change); summarize_tables(tables) == before);
    if is_lack_of_memory(&answer) {
        return Err(Error::Memory);
    }
    found.note_what_refusal_left(answer.is_ok() || summarize_tables(tables) == before);
    print_change_result(found, &answer, tables)
}

/// Adds a line with `answer`, the result of a change, and what the table has then, as
/// `dropped 5: 10..20 in 2, append 10 written 0 deleted 0 files 1 0`: the word for the result and how many
/// entries were dropped, the range of indexes and the number of blocks, the counts of live, written and
/// deleted records, and the least file in each queue, 0 for none.
///
/// # Errors
///
/// `Memory` alone.
fn print_change_result(
    found: &mut Found,
    answer: &Result<u64>,
    tables: &MemTableAccessor,
) -> Result<()> {
    let alloc = found.alloc;
    let (is, number) = match answer {
        Ok(number) => ("dropped", *number),
        Err(_) => (answer_word(answer), 0),
    };
    let stats = tables.stats();
    let live = stats.live_entries(LogQueue::Append);
    let (written, deleted) = (stats.rewrite_entries(), stats.deleted_rewrite_entries());
    let shape = tables.get(REGION).map(ends_and_files).unwrap_or_default();
    let (first, end, blocks, append, rewrite) = shape;
    found.append_line(format!(in alloc;
        "{is} {number}: {first}..{end} in {blocks}, append {live} written {written} deleted {deleted} files {append} {rewrite}"
    )?.as_str())
}

/// Returns five numbers of `table`: its first index and the index after its last one, both 0 without entries;
/// how many blocks it has; and the least file that it needs in each queue, 0 for none.
pub(crate) fn ends_and_files(table: &MemTable) -> (u64, u64, usize, FileSeq, FileSeq) {
    (
        table.first_index().unwrap_or(0),
        table.last_index().map_or(0, |last| last.saturating_add(1)),
        table.block_count(),
        table.min_file_seq(LogQueue::Append).unwrap_or(0),
        table.min_file_seq(LogQueue::Rewrite).unwrap_or(0),
    )
}

/// Makes `change` of the table of region 5. Returns how many entries it dropped.
///
/// # Errors
///
/// Those of [`MemTableAccessor::change`]. Tables and counts are unchanged then.
fn apply_change(alloc: Global, tables: &mut MemTableAccessor, change: Change) -> Result<u64> {
    let change = to_table_change(alloc, change)?;
    tables.change(REGION, change)
}

/// Returns `change` as a [`TableChange`], with the runs, keys and values that it needs.
///
/// # Errors
///
/// `Memory` alone.
pub(crate) fn to_table_change(alloc: Global, change: Change) -> Result<TableChange> {
    Ok(match change {
        Change::Append(start, end, seq) => {
            TableChange::Append(run_between(alloc, start, end, FileId::new(LogQueue::Append, seq))?)
        }
        Change::Rewrite(start, end, seq, gate) => TableChange::Rewrite {
            entries: run_between(alloc, start, end, FileId::new(LogQueue::Rewrite, seq))?,
            gate,
        },
        Change::Put(key, seq) => put_change(alloc, key, FileId::new(LogQueue::Append, seq))?,
        Change::RewriteKey(key, gate, seq) => TableChange::RewriteKey {
            key: Vec::from_slice(alloc, key)?,
            gate,
            seq,
        },
        Change::Delete(key) => TableChange::Delete {
            key: Vec::from_slice(alloc, key)?,
        },
        Change::Compact(index) => TableChange::Compact { index },
        Change::Truncate(index) => TableChange::Truncate { index },
    })
}

/// Returns the change that puts the value `v` under `key`, as a record of the file `file_id`.
///
/// # Errors
///
/// `Memory` alone.
pub(crate) fn put_change(alloc: Global, key: &[u8], file_id: FileId) -> Result<TableChange> {
    let value = Vec::from_slice(alloc, b"v")?;
    Ok(TableChange::Put {
        key: Vec::from_slice(alloc, key)?,
        value,
        file_id,
    })
}

/// Returns an entry of one byte for each of the indexes `start..end`, all in one block of the file `id`.
///
/// # Errors
///
/// `Memory` alone.
fn run_between(alloc: Global, start: u64, end: u64, id: FileId) -> Result<Vec<EntryIndex>> {
    let mut run = Vec::new(alloc);
    for index in start..end {
        run.push(EntryIndex {
            index,
            entries: Some(FileBlockHandle {
                id,
                offset: 0,
                len: 100,
            }),
            compression_type: CompressionType::None,
            entry_offset: 0,
            entry_len: 1,
        })?;
    }
    Ok(run)
}

/// What is fetched of a table.
#[derive(Clone, Copy)]
enum Fetch {
    /// Entries from an index on and below another, with a maximal size in bytes.
    To(u64, u64, Option<usize>),
    /// Entries in append files numbered at or below a gate.
    Before(FileSeq),
    /// Entries in rewrite files.
    Rewritten,
}

/// The fetches of entries that the row `fetches` makes of one table.
static FETCHES: [Fetch; 9] = [
    Fetch::To(10, 25, Some(10)),
    Fetch::To(5, 15, None),
    Fetch::To(20, 30, None),
    Fetch::To(12, 12, None),
    Fetch::To(20, 25, Some(0)),
    Fetch::To(10, 25, None),
    Fetch::Before(2),
    Fetch::Before(3),
    Fetch::Rewritten,
];

/// Returns the fetches of entries that the row makes of one table.
fn rows_of_fetches() -> &'static [Fetch] {
    &FETCHES
}

/// What makes that table: entries in five blocks, of which the first two are rewritten, and two keys, one of
/// them rewritten.
static FETCHED: [Change; 8] = [
    Change::Append(10, 15, 1),
    Change::Append(15, 20, 2),
    Change::Append(20, 25, 3),
    Change::Rewrite(10, 12, 50, Some(1)),
    Change::Rewrite(12, 14, 51, Some(1)),
    Change::Put(b"j", 1),
    Change::Put(b"k", 2),
    Change::RewriteKey(b"j", Some(1), 51),
];

/// Returns tables of which that of region 5 has what the changes `FETCHED` make.
///
/// # Errors
///
/// Those of [`apply_change`]; `Memory`.
fn new_table_to_fetch_from(alloc: Global) -> Result<MemTableAccessor> {
    let mut tables = MemTableAccessor::new(alloc)?;
    for change in &FETCHED {
        apply_change(alloc, &mut tables, *change)?;
    }
    Ok(tables)
}

/// Lists of entries' lengths in bytes, from index 10 on, each with what is fetched of a table with such
/// entries.
static LENGTHS: [(&[u32], Fetch); 2] = [
    (&[], Fetch::To(0, 1, None)),
    (&[0, 0, 5, 3], Fetch::To(10, 14, Some(0))),
];

/// Returns lists of entries' lengths in bytes, each with what is fetched of a table with such entries.
fn rows_of_lengths() -> &'static [(&'static [u32], Fetch)] {
    &LENGTHS
}

/// Returns tables of which that of region 5 has entries with these `lengths` in bytes, at the indexes from 10
/// on.
///
/// # Errors
///
/// `Memory`; those of the append.
fn new_table_with_entry_lengths(alloc: Global, lengths: &[u32]) -> Result<MemTableAccessor> {
    let mut tables = MemTableAccessor::new(alloc)?;
    let end = 10u64.saturating_add(lengths.len() as u64);
    let mut run = run_between(alloc, 10, end, FileId::new(LogQueue::Append, 1))?;
    for (entry, length) in run.iter_mut().zip(lengths) {
        entry.entry_len = *length;
    }
    tables.change(REGION, TableChange::Append(run))?;
    Ok(tables)
}

/// Makes all fetches of the row, of entries and of key values, and adds a line for each.
///
/// # Errors
///
/// `Memory`; `Failed` if a table that was made isn't there. Any other error of a fetch of entries is the
/// result in its line.
pub(crate) fn make_all_fetches(found: &mut Found) -> Result<()> {
    let tables = new_table_to_fetch_from(found.alloc)?;
    let Some(table) = tables.get(REGION) else {
        return Err(Error::Failed);
    };
    for fetch in rows_of_fetches() {
        fetch_entries(found, table, *fetch)?;
    }
    for &gate in &[Some(1), Some(2), None] {
        fetch_pairs(found, table, gate)?;
    }
    for (lengths, fetch) in rows_of_lengths() {
        fetch_from_entry_lengths(found, lengths, *fetch)?;
    }
    Ok(())
}

/// Makes one fetch of entries from a table whose entries have these `lengths` in bytes, and adds its line.
///
/// # Errors
///
/// Those of [`new_table_with_entry_lengths`] and [`fetch_entries`]; `Failed` if the table isn't there.
fn fetch_from_entry_lengths(found: &mut Found, lengths: &[u32], fetch: Fetch) -> Result<()> {
    let tables = new_table_with_entry_lengths(found.alloc, lengths)?;
    match tables.get(REGION) {
        Some(table) => fetch_entries(found, table, fetch),
        None => Err(Error::Failed),
    }
}

/// Fetches entries into a vector that has one already, and adds a line with the result, the length of the
/// vector and the last index, as `ok 6 last 14`. Notes in `found` whether the vector is unchanged if the
/// fetch fails.
///
/// # Errors
///
/// `Memory` alone. Any other error is the result in the line.
fn fetch_entries(found: &mut Found, table: &MemTable, fetch: Fetch) -> Result<()> {
    let mut vec = vec![in found.alloc; EntryIndex::default()]?;
    let answer = match fetch {
        Fetch::To(begin, end, max_size) => table.fetch_entries_to(begin, end, max_size, &mut vec),
        Fetch::Before(gate) => table.fetch_entry_indexes_before(gate, &mut vec),
        Fetch::Rewritten => table.fetch_rewritten_entry_indexes(&mut vec),
    };
    found.note_what_refusal_left(
        answer.is_ok() || vec.as_slice() == [EntryIndex::default()].as_slice(),
    );
    if is_lack_of_memory(&answer) {
        return answer;
    }
    let alloc = found.alloc;
    let last = vec.last().map_or(0, |entry| entry.index);
    found.append_line(format!(in alloc;
        "{} {} last {last}",
        answer_word(&answer),
        vec.len()
    )?.as_str())
}

/// Fetches key values: with a `gate`, those in append files numbered at or below it; without one, those in
/// rewrite files. Adds a line with their number, as `pairs 2`. Notes in `found` whether none was appended if
/// the fetch fails.
///
/// # Errors
///
/// `Memory` alone.
fn fetch_pairs(found: &mut Found, table: &MemTable, gate: Option<FileSeq>) -> Result<()> {
    let mut vec = Vec::new(found.alloc);
    let answer = match gate {
        Some(gate) => table.fetch_kvs_before(gate, &mut vec),
        None => table.fetch_rewritten_kvs(&mut vec),
    };
    found.note_what_refusal_left(answer.is_ok() || vec.is_empty());
    answer?;
    let alloc = found.alloc;
    found.append_line(format!(in alloc; "pairs {}", vec.len())?.as_str())
}
