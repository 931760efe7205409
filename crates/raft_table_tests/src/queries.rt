//! Tests what a table returns of its entries.

use crate::store::Answer::{Compacted, Done, InvalidArgument, NotFound};
use crate::store::Call::{Append, Group, Rewrite};
use crate::store::{Answer, LogStore, to_answer};
use raft_memtable::{
    EntryIndex, FileBlockHandle, FileId, FileSeq, LogQueue, MemTable, Result, TableChange, is_run,
};
use raft_trials::again;
use std::alloc::Global;
use std::process::Abort;

/// The index of an entry, and the queue that it is in; `None` where it has no place.
type ListedEntry = (u64, Option<LogQueue>);

const HERE: Option<LogQueue> = Some(LogQueue::Append);

/// Lists of entries, and what an append of each returns.
static LISTS: [(&[ListedEntry], Answer); 6] = [
    (&[], Done),
    (&[(u64::MAX - 2, HERE), (u64::MAX - 1, HERE)], Done),
    (&[(u64::MAX, HERE)], InvalidArgument),
    (&[(1, HERE), (3, HERE)], InvalidArgument),
    (&[(1, HERE), (2, None)], InvalidArgument),
    (&[(1, Some(LogQueue::Rewrite))], InvalidArgument),
];

/// Returns the rows of lists.
fn list_rows() -> &'static [(&'static [ListedEntry], Answer)] {
    &LISTS
}

/// Returns the entries of a list, each at a place of its own.
///
/// # Errors
///
/// `Memory` alone.
fn entries_of_list(alloc: Global, list: &[ListedEntry]) -> Result<Vec<EntryIndex>> {
    let mut entries = Vec::new(alloc);
    for (index, queue) in list {
        entries.push(EntryIndex {
            index: *index,
            entries: queue.map(|queue| FileBlockHandle {
                id: FileId::new(queue, 1),
                offset: *index,
                len: 64,
            }),
            ..EntryIndex::default()
        })?;
    }
    Ok(entries)
}

/// Appends a list. Returns whether it is a run of the append queue, and the answer.
///
/// # Errors
///
/// `Memory`; an error for which there is no [`Answer`].
fn append_list(
    alloc: Global,
    store: &mut LogStore,
    list: &[ListedEntry],
) -> Result<(bool, Answer)> {
    let entries = entries_of_list(alloc, list)?;
    let is_run = is_run(&entries, LogQueue::Append);
    let answer = to_answer(store.make(TableChange::Append(entries)))?;
    Ok((is_run, answer))
}

/// Asserts that the lists of the rows are appended to one table or refused as the rows say, one after another.
///
/// # Errors
///
/// Those of [`append_list`], and of changes that are to succeed.
fn check_each_list_row(rt: &impl Abort, alloc: Global) -> Result<()> {
    let mut store = LogStore::new(alloc);
    for (list, want) in list_rows() {
        assert!(rt; append_list(alloc, &mut store, list)? == (*want == Done, *want));
    }
    assert_eq!(rt; store.make(TableChange::Keep)?, 0);
    assert_eq!(rt; store.table.last_index(), Some(u64::MAX - 1));
    Ok(())
}

/// Tests which lists of entries are runs that a table appends, and how others are refused.
#[test]
fn lists_are_appended_as_runs_or_refused(rt: HostRuntime) -> Result<()> {
    again!(check_each_list_row(&rt, rt.alloc()))
}

/// The lengths of entries from index 10 on; the range and the limit of a fetch; its answer, and how many entries it
/// gives.
type Fetch = (&'static [u32], u64, u64, Option<usize>, Answer, usize);

static FETCHES: [Fetch; 11] = [
    (&[], 0, 1, None, NotFound, 0),
    (&[1; 15], 5, 15, None, Compacted, 0),
    (&[1; 15], 20, 30, None, NotFound, 0),
    (&[1; 15], 12, 12, None, Done, 0),
    (&[1; 15], 30, 5, None, Done, 0),
    (&[1; 15], 10, 25, None, Done, 15),
    (&[1; 15], 20, 25, Some(0), Done, 1),
    (&[1; 15], 10, 25, Some(10), Done, 10),
    (&[0, 0, 5, 3], 10, 14, Some(0), Done, 3),
    (&[0, 0, 5, 3], 10, 14, Some(8), Done, 4),
    (&[u32::MAX, u32::MAX], 10, 12, Some(1 << 32), Done, 1),
];

/// Returns the rows of fetches.
fn fetch_rows() -> &'static [Fetch] {
    &FETCHES
}

/// Returns entries of these lengths from the index 10 on, each at a place of its own.
///
/// # Errors
///
/// `Memory` alone.
fn entries_of_lengths(alloc: Global, lens: &[u32]) -> Result<Vec<EntryIndex>> {
    let mut entries = Vec::new(alloc);
    let mut index = 10u64;
    for len in lens {
        entries.push(EntryIndex {
            index,
            entries: Some(FileBlockHandle {
                id: FileId::new(LogQueue::Append, 1),
                offset: index,
                len: 64,
            }),
            entry_len: *len,
            ..EntryIndex::default()
        })?;
        index = index.saturating_add(1);
    }
    Ok(entries)
}

/// Tests whether entries have the indexes from `first` on.
fn have_indexes_from(entries: &[EntryIndex], first: u64) -> bool {
    let mut index = first;
    for entry in entries {
        if entry.index != index {
            return false;
        }
        index = index.saturating_add(1);
    }
    true
}

/// Fetches entries. Returns the answer, how many entries it gives, and whether these are the ones from `begin` on.
///
/// # Errors
///
/// `Memory`; an error for which there is no [`Answer`].
fn fetch_entries(
    alloc: Global,
    table: &MemTable,
    begin: u64,
    end: u64,
    limit: Option<usize>,
) -> Result<(Answer, usize, bool)> {
    let mut fetched = Vec::new(alloc);
    let given = table.fetch_entries_to(begin, end, limit, &mut fetched);
    let answer = to_answer(given.map(|()| 0))?;
    Ok((
        answer,
        fetched.len(),
        have_indexes_from(fetched.as_slice(), begin),
    ))
}

/// Tests whether the fetch of a row gives what the row says.
///
/// # Errors
///
/// Those of [`fetch_entries`], and of the append before it.
fn fetch_row_holds(alloc: Global, row: &Fetch) -> Result<bool> {
    let (lens, begin, end, limit, want, count) = *row;
    let mut store = LogStore::new(alloc);
    store.make(TableChange::Append(entries_of_lengths(alloc, lens)?))?;
    Ok(fetch_entries(alloc, &store.table, begin, end, limit)? == (want, count, true))
}

/// Tests that a fetch gives the entries of its range up to its size limit, or is refused.
#[test]
fn fetches_end_at_their_limits(rt: HostRuntime) -> Result<()> {
    for row in fetch_rows() {
        let held = again!(fetch_row_holds(rt.alloc(), row))?;
        assert!(rt; held, "{} {} {:?}", row.1, row.2, row.3);
    }
    Ok(())
}

/// Tests whether a table says that it has at least `count` entries in append files up to `seq`.
fn has_at_least_before(table: &MemTable, seq: FileSeq, count: usize) -> bool {
    let gate = FileId::new(LogQueue::Append, seq);
    count > 0 && table.has_at_least_some_entries_before(gate, count)
}

/// Fetches the appended entries up to file 1, those up to file 2, and the rewritten ones, into one list. Returns how
/// long the list is after each fetch; and whether the appended entries in it are those from 10 on, and the rewritten
/// ones those from 0 on.
///
/// # Errors
///
/// Those of the fetches.
fn fetch_each_queue(alloc: Global, table: &MemTable) -> Result<([usize; 3], bool)> {
    let mut fetched = Vec::new(alloc);
    table.fetch_entry_indexes_before(1, &mut fetched)?;
    let first = fetched.len();
    table.fetch_entry_indexes_before(2, &mut fetched)?;
    let second = fetched.len();
    table.fetch_rewritten_entry_indexes(&mut fetched)?;
    let appended = fetched.get(..second).unwrap_or(&[]);
    let rewritten = fetched.get(second..).unwrap_or(&[]);
    let are_theirs = have_indexes_from(appended, 10) && have_indexes_from(rewritten, 0);
    Ok(([first, second, fetched.len()], are_theirs))
}

/// Returns how many blocks, how many rewritten entries, and how many records of the append queue a table has.
fn block_and_entry_counts(table: &MemTable) -> (usize, usize, u128) {
    (
        table.block_count(),
        table.rewrite_count(),
        table.records(LogQueue::Append),
    )
}

/// Returns the number of the file that an entry is in; `None` where there is no such entry.
fn file_seq_of_entry(table: &MemTable, index: u64) -> Option<FileSeq> {
    table
        .get_entry(index)
        .and_then(|entry| entry.entries)
        .map(|place| place.id.seq)
}

/// Asserts what a table returns of entries in two append files, those of the first of which are then rewritten.
///
/// # Errors
///
/// Those of the table's calls; `Memory`.
fn check_queries_of_both_queues(rt: &impl Abort, alloc: Global) -> Result<()> {
    let calls = [
        Append((0, 10, 1)),
        Append((10, 20, 2)),
        Rewrite((0, 15, 50), Some(1)),
        Group(3, 7),
    ];
    let store = LogStore::with_calls(alloc, &calls)?;
    let table = &store.table;
    assert!(rt; block_and_entry_counts(table) == (2, 10, 10));
    assert!(rt; table.atomic_group() == Some((3, 7)));
    for &(index, seq) in &[(9, Some(50)), (10, Some(2)), (20, None)] {
        assert!(rt; file_seq_of_entry(table, index) == seq, "{index}");
    }
    for &(seq, count, want) in &[
        (50, 10, true),
        (49, 10, false),
        (2, 11, true),
        (50, 21, false),
    ] {
        assert!(rt;
            has_at_least_before(table, seq, count) == want,
            "{seq} {count}"
        );
    }
    let fetched = fetch_each_queue(alloc, table)?;
    assert!(rt; fetched == ([0, 10, 20], true));
    Ok(())
}

/// Tests that queries by queue count and fetch just the entries of that queue.
#[test]
fn queries_tell_the_queues_apart(rt: HostRuntime) -> Result<()> {
    again!(check_queries_of_both_queues(&rt, rt.alloc()))
}
