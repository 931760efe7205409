//! Tests walks over keys, pairs that are fetched, and the pairs of two tables that are merged.

use crate::store::LogStore;
use raft_memtable::{FileId, FileSeq, LogQueue, MemTable, Result, TableChange};
use raft_trials::again;
use std::alloc::Global;
use std::process::Abort;

/// Returns a store with the keys 1, 2 and 3, the second of which is rewritten.
///
/// # Errors
///
/// Those of the table's calls; `Memory`.
fn store_with_three_keys(alloc: Global) -> Result<LogStore> {
    let mut store = LogStore::new(alloc);
    for &(key, queue, seq) in &[
        (b"2", LogQueue::Rewrite, 2),
        (b"3", LogQueue::Append, 3),
        (b"1", LogQueue::Append, 1),
    ] {
        store.put(key, b"value", FileId::new(queue, seq))?;
    }
    Ok(store)
}

/// Fetches the pairs of a table in append files up to 2, and then those in rewrite files. Returns how many these are,
/// and whether the first one has the key 1.
///
/// # Errors
///
/// Those of the fetches.
fn fetch_pairs(alloc: Global, table: &MemTable) -> Result<(usize, bool)> {
    let mut pairs = Vec::new(alloc);
    table.fetch_kvs_before(2, &mut pairs)?;
    table.fetch_rewritten_kvs(&mut pairs)?;
    let first = pairs
        .first()
        .is_some_and(|p| p.0.as_slice() == b"1".as_slice());
    Ok((pairs.len(), first))
}

/// A bound of a walk: a key, or none.
type Bound = Option<&'static [u8]>;

const ONE: Bound = Some(b"1");

const TWO: Bound = Some(b"2");

/// A walk over the keys 1, 2 and 3: its start, its end, whether it goes backwards, and the number at which it ends
/// early; and the keys that it meets, as the digits of a number.
type Walk = (Bound, Bound, bool, u64, u64);

static WALKS: [Walk; 10] = [
    (None, None, false, 1000, 123),
    (None, None, true, 1000, 321),
    (None, None, false, 10, 12),
    (None, None, true, 10, 32),
    (TWO, None, false, 1000, 23),
    (TWO, None, true, 1000, 32),
    (None, TWO, false, 1000, 1),
    (ONE, TWO, true, 1000, 1),
    (TWO, TWO, false, 1000, 0),
    (TWO, ONE, false, 1000, 0),
];

/// Returns the rows of walks.
fn rows_of_walks() -> &'static [Walk] {
    &WALKS
}

/// Walks over the keys of a table, and returns those that it meets as the digits of a number. It ends early once that
/// number isn't below `limit`.
///
/// # Errors
///
/// Those of [`MemTable::scan`].
fn walk_keys_as_digits(
    table: &MemTable,
    start: Bound,
    end: Bound,
    reverse: bool,
    limit: u64,
) -> Result<u64> {
    let mut seen = 0u64;
    table.scan(start, end, reverse, |key, _| {
        let digit = key.first().map_or(0, |b| u64::from(*b & 15));
        seen = seen.wrapping_mul(10).wrapping_add(digit);
        seen < limit
    })?;
    Ok(seen)
}

/// Asserts what a table returns for its keys.
///
/// # Errors
///
/// Those of the table's calls; `Memory`.
fn check_queries_of_keys(rt: &impl Abort, alloc: Global) -> Result<()> {
    let store = store_with_three_keys(alloc)?;
    let table = &store.table;
    assert!(rt; table.get(b"2") == Some(b"value".as_slice()));
    assert!(rt; table.get(b"4").is_none());
    assert!(rt; fetch_pairs(alloc, table)? == (2, true));
    for (start, end, reverse, limit, want) in rows_of_walks() {
        assert_eq!(rt;
            walk_keys_as_digits(table, *start, *end, *reverse, *limit)?,
            *want
        );
    }
    Ok(())
}

/// Tests that keys are walked within bounds, in both directions, and that pairs are fetched.
#[test]
fn keys_are_walked_in_order_and_pairs_fetched(rt: HostRuntime) -> Result<()> {
    again!(check_queries_of_keys(&rt, rt.alloc()))
}

/// Returns a store with these keys and values in a file.
///
/// # Errors
///
/// Those of the table's calls; `Memory`.
fn store_with_pairs(alloc: Global, file: FileId, pairs: &[(&[u8], &[u8])]) -> Result<LogStore> {
    let mut store = LogStore::new(alloc);
    for (key, value) in pairs {
        store.put(*key, *value, file)?;
    }
    Ok(store)
}

/// Returns a store with two rewritten keys, into which two appended ones were merged. One key is in both.
///
/// # Errors
///
/// Those of the table's calls; `Memory`.
fn store_after_merge(alloc: Global) -> Result<LogStore> {
    let rewritten = FileId::new(LogQueue::Rewrite, 7);
    let mut store = store_with_pairs(alloc, rewritten, &[(b"j", b"1"), (b"k", b"2")])?;
    let appended = FileId::new(LogQueue::Append, 9);
    let newer = store_with_pairs(alloc, appended, &[(b"k", b"3"), (b"l", b"4")])?;
    let mut table = newer.table;
    store.merge(&mut table, true)?;
    Ok(store)
}

/// Tests whether a store has these values of the keys j, k and l.
fn has_values(store: &LogStore, values: [Bound; 3]) -> bool {
    let table = &store.table;
    [table.get(b"j"), table.get(b"k"), table.get(b"l")] == values
}

/// Returns how many pairs of a table are in append files up to the one numbered `gate`.
///
/// # Errors
///
/// Those of the fetch.
fn count_before(alloc: Global, table: &MemTable, gate: FileSeq) -> Result<usize> {
    let mut pairs = Vec::new(alloc);
    table.fetch_kvs_before(gate, &mut pairs)?;
    Ok(pairs.len())
}

/// Returns how many keys a table has, how many of them are rewritten, and the oldest append file that it needs.
fn key_counts(table: &MemTable) -> (usize, u128, Option<FileSeq>) {
    (
        table.key_count(),
        table.records(LogQueue::Rewrite),
        table.min_file_seq(LogQueue::Append),
    )
}

/// Rewrites a key into rewrite file 50, if it is in an append file up to 9.
///
/// # Errors
///
/// Those of the table's calls; `Memory`.
fn rewrite_key(alloc: Global, store: &mut LogStore, key: &[u8]) -> Result<()> {
    let key = Vec::from_slice(alloc, key)?;
    store.make(TableChange::RewriteKey {
        key,
        gate: Some(9),
        seq: 50,
    })?;
    Ok(())
}

/// Deletes a key.
///
/// # Errors
///
/// Those of the table's calls; `Memory`.
fn delete_key(alloc: Global, store: &mut LogStore, key: &[u8]) -> Result<()> {
    let key = Vec::from_slice(alloc, key)?;
    store.make(TableChange::Delete { key })?;
    Ok(())
}

/// Asserts what a merged table has, and what it has after a rewriting and after a deletion.
///
/// # Errors
///
/// Those of the table's calls; `Memory`.
fn check_merged_keys(rt: &impl Abort, alloc: Global) -> Result<()> {
    let mut store = store_after_merge(alloc)?;
    assert!(rt; has_values(&store, [Some(b"1"), Some(b"3"), Some(b"4")]));
    assert!(rt; key_counts(&store.table) == (3, 1, Some(9)));
    assert!(rt; count_before(alloc, &store.table, 9)? == 2);
    rewrite_key(alloc, &mut store, b"l")?;
    assert!(rt; key_counts(&store.table) == (3, 2, Some(9)));
    delete_key(alloc, &mut store, b"j")?;
    assert!(rt; key_counts(&store.table) == (2, 1, Some(9)));
    assert!(rt; has_values(&store, [None, Some(b"3"), Some(b"4")]));
    Ok(())
}

/// Tests which values a merged table has, and what a rewriting and a deletion leave of them.
#[test]
fn newer_pairs_replace_older_ones(rt: HostRuntime) -> Result<()> {
    again!(check_merged_keys(&rt, rt.alloc()))
}
