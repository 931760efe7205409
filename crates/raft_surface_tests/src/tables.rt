//! The table of one region and its counts, from `raft_memtable`.
//!
//! Each function pins names or types: it compiles only as long as these are there as it writes them. None is called for
//! its effect, but where the test at the end says so.

use raft_memtable::{
    Block, DeletedKeys, EntryIndex, Error, FileBlockHandle, FileId, FileSeq, GlobalStats, LogQueue,
    Mark, MemTable, Result, TableChange, global_stats, is_run, memtable,
};
use std::alloc::Global;
use std::collections::VecDeque;

/// Compiles only as long as these have these types: `default` of `<GlobalStats as Default>`; `add`, `delete`,
/// `live_entries`, `rewrite_entries`, `deleted_rewrite_entries` and `reset_rewrite_counters` of `GlobalStats`.
fn counts() {
    let _default: fn() -> GlobalStats = <GlobalStats as Default>::default;
    let _add: fn(&mut GlobalStats, LogQueue, usize) -> Result<()> = GlobalStats::add;
    let _delete: fn(&mut GlobalStats, LogQueue, usize) = GlobalStats::delete;
    let _live_entries: fn(&GlobalStats, LogQueue) -> usize = GlobalStats::live_entries;
    let _rewrite_entries: fn(&GlobalStats) -> usize = GlobalStats::rewrite_entries;
    let _deleted: fn(&GlobalStats) -> usize = GlobalStats::deleted_rewrite_entries;
    let _reset: fn(&mut GlobalStats) = GlobalStats::reset_rewrite_counters;
}

/// Compiles only as long as these have these types: `new`, `region_id`, `rewrite_count`, `first_index`, `last_index`,
/// `atomic_group`, `block_count`, `records`, `entries_count` and `key_count` of `MemTable`; `is_run`.
fn properties() {
    let _new: fn(Global, u64) -> MemTable = MemTable::new;
    let _region_id: fn(&MemTable) -> u64 = MemTable::region_id;
    let _rewrite_count: fn(&MemTable) -> usize = MemTable::rewrite_count;
    let _first_index: fn(&MemTable) -> Option<u64> = MemTable::first_index;
    let _last_index: fn(&MemTable) -> Option<u64> = MemTable::last_index;
    let _atomic_group: fn(&MemTable) -> Option<(FileSeq, FileSeq)> = MemTable::atomic_group;
    let _block_count: fn(&MemTable) -> usize = MemTable::block_count;
    let _records: fn(&MemTable, LogQueue) -> u128 = MemTable::records;
    let _entries_count: fn(&MemTable) -> usize = MemTable::entries_count;
    let _key_count: fn(&MemTable) -> usize = MemTable::key_count;
    let _is_run: fn(&[EntryIndex], LogQueue) -> bool = is_run;
}

/// Compiles only as long as `MemTable::blocks` takes `table`, and returns `&VecDeque<Block>`.
fn blocks_of_properties<'a>(table: &'a MemTable) -> &'a VecDeque<Block> {
    MemTable::blocks(table)
}

/// Compiles only as long as these functions of `MemTable` have these types: `append`, `replay_append`,
/// `replay_rewrite`, `rewrite`, `compact_to` and `truncate_from`.
fn runs() {
    let _append: fn(&mut MemTable, Vec<EntryIndex>, &mut GlobalStats) -> Result<()> =
        MemTable::append;
    let _replay_append: fn(&mut MemTable, Vec<EntryIndex>, &mut GlobalStats) -> Result<()> =
        MemTable::replay_append;
    let _replay_rewrite: fn(&mut MemTable, Vec<EntryIndex>, &mut GlobalStats) -> Result<()> =
        MemTable::replay_rewrite;
    let _rewrite: fn(
        &mut MemTable,
        Vec<EntryIndex>,
        Option<FileSeq>,
        &mut GlobalStats,
    ) -> Result<()> = MemTable::rewrite;
    let _compact_to: fn(&mut MemTable, u64, &mut GlobalStats) -> u64 = MemTable::compact_to;
    let _truncate_from: fn(&mut MemTable, u64, &mut GlobalStats) -> u64 = MemTable::truncate_from;
}

/// Compiles only as long as `MemTable::put`, `MemTable::delete`, `MemTable::rewrite_key` and `MemTable::get_entry` have
/// these types.
fn keys() {
    let _put: fn(&mut MemTable, Vec<u8>, Vec<u8>, FileId, &mut GlobalStats) -> Result<()> =
        MemTable::put;
    let _delete: fn(&mut MemTable, &[u8], &mut GlobalStats) = MemTable::delete;
    let _rewrite_key: fn(
        &mut MemTable,
        Vec<u8>,
        Option<FileSeq>,
        FileSeq,
        &mut GlobalStats,
    ) -> Result<()> = MemTable::rewrite_key;
    let _get_entry: fn(&MemTable, u64) -> Option<EntryIndex> = MemTable::get_entry;
}

/// Compiles only as long as `MemTable::get` takes `table` and `bytes`, and returns `Option<&[u8]>`.
fn get_of_keys<'a>(table: &'a MemTable, bytes: &[u8]) -> Option<&'a [u8]> {
    MemTable::get(table, bytes)
}

/// Scans the keys between two bounds from the last one back, until the visitor returns `false`.
///
/// # Errors
///
/// Those of `MemTable::scan`.
fn scan_of_keys(table: &MemTable, start: Option<&[u8]>, end: Option<&[u8]>) -> Result<()> {
    let reverse: bool = true;
    MemTable::scan(
        table,
        start,
        end,
        reverse,
        |key: &[u8], value: &[u8]| key.len() == value.len(),
    )
}

/// Compiles only as long as these functions of `MemTable` have these types: `fetch_entries_to`,
/// `fetch_entry_indexes_before`, `fetch_rewritten_entry_indexes`, `fetch_kvs_before`, `fetch_rewritten_kvs`,
/// `min_file_seq` and `has_at_least_some_entries_before`.
fn fetches() {
    let _fetch_entries_to: fn(
        &MemTable,
        u64,
        u64,
        Option<usize>,
        &mut Vec<EntryIndex>,
    ) -> Result<()> = MemTable::fetch_entries_to;
    let _before: fn(&MemTable, FileSeq, &mut Vec<EntryIndex>) -> Result<()> =
        MemTable::fetch_entry_indexes_before;
    let _rewritten: fn(&MemTable, &mut Vec<EntryIndex>) -> Result<()> =
        MemTable::fetch_rewritten_entry_indexes;
    let _kvs_before: fn(&MemTable, FileSeq, &mut Vec<(Vec<u8>, Vec<u8>)>) -> Result<()> =
        MemTable::fetch_kvs_before;
    let _rewritten_kvs: fn(&MemTable, &mut Vec<(Vec<u8>, Vec<u8>)>) -> Result<()> =
        MemTable::fetch_rewritten_kvs;
    let _min_file_seq: fn(&MemTable, LogQueue) -> Option<FileSeq> = MemTable::min_file_seq;
    let _has_some_before: fn(&MemTable, FileId, usize) -> bool =
        MemTable::has_at_least_some_entries_before;
}

/// Compiles only as long as these have these types: `apply_rewrite_atomic_group`, `merge_newer_neighbor`,
/// `merge_append_table` and `change` of `MemTable`; `new` of `Mark`; `new` of `DeletedKeys`.
fn merges() {
    let _atomic_group: fn(&mut MemTable, FileSeq, FileSeq) = MemTable::apply_rewrite_atomic_group;
    let _newer: fn(&mut MemTable, &mut MemTable, &mut GlobalStats) -> Result<()> =
        MemTable::merge_newer_neighbor;
    let _appended: fn(&mut MemTable, &mut MemTable, &mut GlobalStats) -> Result<()> =
        MemTable::merge_append_table;
    let _change: fn(&mut MemTable, TableChange, &mut GlobalStats) -> Result<u64> = MemTable::change;
    let _mark: fn(Global) -> Mark = Mark::new;
    let _deleted_keys: fn(Global) -> DeletedKeys = DeletedKeys::new;
}

/// Returns the spans of a block, by the names and types of all fields.
fn spans_of(block: Block) -> VecDeque<(u32, u32)> {
    let Block { handle, spans } = block;
    let _handle: FileBlockHandle = handle;
    spans
}

/// Makes the change that puts a key, by the names and types of all fields.
fn put_change(key: Vec<u8>, value: Vec<u8>, file_id: FileId) -> TableChange {
    TableChange::Put {
        key,
        value,
        file_id,
    }
}

/// Makes the changes that append and rewrite runs, by the names and types of all fields.
fn run_changes(run: Vec<EntryIndex>, entries: Vec<EntryIndex>) -> (TableChange, TableChange) {
    let gate: Option<FileSeq> = None;
    (
        TableChange::Append(run),
        TableChange::Rewrite { entries, gate },
    )
}

/// Makes the changes that rewrite and delete a key, by the names and types of all fields.
fn key_changes(key: Vec<u8>, other: Vec<u8>, seq: FileSeq) -> (TableChange, TableChange) {
    let gate = Some(seq);
    let rewriting = TableChange::RewriteKey { key, gate, seq };
    (rewriting, TableChange::Delete { key: other })
}

/// Makes the changes that compact and truncate at an index, by the names and types of all fields.
fn index_changes(index: u64) -> (TableChange, TableChange) {
    (
        TableChange::Compact { index },
        TableChange::Truncate { index },
    )
}

/// Returns a word for a change. The match names every variant.
fn kind_of(change: &TableChange) -> &'static str {
    match change {
        TableChange::Keep => "keep",
        TableChange::Append(_) => "append",
        TableChange::Put {
            key: _,
            value: _,
            file_id: _,
        } => "put",
        TableChange::Delete { key: _ } => "delete",
        TableChange::Compact { index: _ } => "compact",
        TableChange::Truncate { index: _ } => "truncate",
        TableChange::Rewrite {
            entries: _,
            gate: _,
        } => "rewrite",
        TableChange::RewriteKey {
            key: _,
            gate: _,
            seq: _,
        } => "rewrite key",
    }
}

/// Tests that the names above are exported with these types, and that what they give is as it is written here.
#[test]
fn tables_are_handed_on(rt: HostRuntime) {
    counts();
    properties();
    runs();
    keys();
    fetches();
    merges();
    let _block: Option<FileBlockHandle> = None;
    let _counts: global_stats::GlobalStats = GlobalStats::default();
    let table: memtable::MemTable = MemTable::new(rt.alloc(), 7);
    assert!(rt; table.region_id() == 7 && kind_of(&TableChange::Keep) == "keep");
    assert!(rt; matches!(Error::Full, raft_base::Error::Full));
    assert!(rt; kind_of(&index_changes(7).1) == "truncate");
    assert!(rt; matches!(scan_of_keys(&table, None, None), Ok(())));
}
