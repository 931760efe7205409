//! Tables, reduced to a few numbers without allocating memory. Two such results are compared to see whether a
//! refused call has changed anything.

use raft_memtable::{EntryIndex, LogQueue, MemTable, MemTableAccessor};

/// What tables have, reduced to a few numbers.
#[derive(Clone, Copy, PartialEq, Debug)]
pub(crate) struct Seen {
    /// The sum of the hashes of all tables. That of a table without entries, keys and group is 0.
    pub(crate) records: u64,
    /// How many tables there are.
    pub(crate) tables: u64,
    /// How many records are live in the append queue, were written to the rewrite queue, and were deleted
    /// from it.
    pub(crate) counts: (usize, usize, usize),
    /// A hash of the list of cleaned regions.
    pub(crate) cleaned: u64,
}

/// Returns what `tables` have now.
pub(crate) fn summarize_tables(tables: &MemTableAccessor) -> Seen {
    let stats = tables.stats();
    Seen {
        records: tables.fold(
            0u64,
            |sum, table: &MemTable| sum.wrapping_add(hash_of_table(table)),
        ),
        tables: tables.fold(0u64, |count, _: &MemTable| count.wrapping_add(1)),
        counts: (
            stats.live_entries(LogQueue::Append),
            stats.rewrite_entries(),
            stats.deleted_rewrite_entries(),
        ),
        cleaned: hash_of_regions(tables.cleaned_regions()),
    }
}

/// Returns a hash of the list `regions`. Their order counts.
pub(crate) fn hash_of_regions(regions: &[u64]) -> u64 {
    let mut all = regions.len() as u64;
    for region in regions {
        all = hash_with_number(all, *region);
    }
    all
}

/// Returns a hash of `number`, added to the hash `all` of what came before.
fn hash_with_number(all: u64, number: u64) -> u64 {
    (all ^ number)
        .wrapping_mul(0x9e37_79b9_7f4a_7c15)
        .rotate_left(29)
}

/// Returns a hash of `entry`, with its place, added to the hash `all` of what came before.
fn hash_with_entry(all: u64, entry: EntryIndex) -> u64 {
    let mut all = hash_with_number(all, entry.index);
    if let Some(handle) = entry.entries {
        let queue = match handle.id.queue {
            LogQueue::Append => 1,
            LogQueue::Rewrite => 2,
        };
        all = hash_with_number(hash_with_number(all, queue), handle.id.seq);
        all = hash_with_number(hash_with_number(all, handle.offset), handle.len as u64);
    }
    hash_with_number(
        hash_with_number(all, u64::from(entry.entry_offset)),
        u64::from(entry.entry_len),
    )
}

/// Returns a hash of the records of `table`: of its entries with their places, its keys with their values,
/// its atomic group and its region. Of the files of values only the least one in each queue counts. Returns 0
/// for a table without entries, keys and group.
pub(crate) fn hash_of_table(table: &MemTable) -> u64 {
    let group = match table.atomic_group() {
        Some((start, end)) => hash_with_number(hash_with_number(1, start), end),
        None => 0,
    };
    let all = hash_with_pairs(hash_with_entries(group, table), table);
    if all == 0 {
        return 0;
    }
    hash_with_number(all, table.region_id())
}

/// Returns a hash of the entries of `table`, with their places, added to the hash `group` of what came
/// before. Returns `group` if there are no entries.
fn hash_with_entries(group: u64, table: &MemTable) -> u64 {
    let (Some(first), Some(last)) = (table.first_index(), table.last_index()) else {
        return group;
    };
    let mut all = hash_with_number(group, table.rewrite_count() as u64);
    for index in first..last.saturating_add(1) {
        if let Some(entry) = table.get_entry(index) {
            all = hash_with_entry(all, entry);
        }
    }
    all
}

/// Returns a hash of the keys and values of `table`, and of the least file that it needs in each queue, added
/// to the hash `before` of what came before. Returns `before` if there are no keys.
fn hash_with_pairs(before: u64, table: &MemTable) -> u64 {
    if table.key_count() == 0 {
        return before;
    }
    let mut all = hash_with_number(before, table.min_file_seq(LogQueue::Append).unwrap_or(0));
    all = hash_with_number(all, table.min_file_seq(LogQueue::Rewrite).unwrap_or(0));
    let _ = table.scan(None, None, false, |key, value| {
        for byte in key.iter().chain(value) {
            all = hash_with_number(all, u64::from(*byte));
        }
        true
    });
    all
}

/// Tests whether the live counts of `tables` are those of all tables together, in both queues.
pub(crate) fn are_live_counts_right(tables: &MemTableAccessor) -> bool {
    let append = tables.fold(0u128, |sum, table: &MemTable| {
        sum.wrapping_add(table.records(LogQueue::Append))
    });
    let rewrite = tables.fold(0u128, |sum, table: &MemTable| {
        sum.wrapping_add(table.records(LogQueue::Rewrite))
    });
    let stats = tables.stats();
    append == stats.live_entries(LogQueue::Append) as u128
        && rewrite == stats.live_entries(LogQueue::Rewrite) as u128
}
