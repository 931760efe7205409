//! Merges of two tables of one region, by calls of the tables themselves.

ghost use Rattle.raft_memtable.specs.Table.{IsCounted};

use crate::calls::Call;
use crate::found::{Found, answer_word, is_lack_of_memory};
use crate::seen::hash_of_table;
use crate::tables::{Change, REGION, ends_and_files, to_table_change};
use raft_memtable::{Error, GlobalStats, LogQueue, MemTable, Result};
use std::alloc::Global;

/// The calls of the row `direct-merges`: the changes of a table and those of a newer one, and whether that is
/// merged as one of the append queue or as the newer neighbor.
pub(crate) static DIRECT: [Call; 9] = [
    // Entries of three files, over those of the append queue and behind them, and more keys than a node of a map has.
    Call::MergeDirectly(
        &[
            Change::Append(10, 20, 1),
            Change::Put(b"j", 1),
            Change::Put(b"k", 1),
        ],
        &[
            Change::Append(15, 18, 2),
            Change::Append(18, 19, 3),
            Change::Append(19, 30, 4),
            Change::Put(b"a", 2),
            Change::Put(b"b", 2),
            Change::Put(b"c", 2),
            Change::Put(b"d", 2),
            Change::Put(b"e", 2),
            Change::Put(b"f", 2),
            Change::Put(b"g", 2),
            Change::Put(b"h", 2),
            Change::Put(b"i", 2),
            Change::Put(b"j", 2),
            Change::Put(b"k", 2),
            Change::Put(b"l", 2),
            Change::Put(b"m", 2),
            Change::Put(b"n", 2),
            Change::Put(b"o", 2),
            Change::Put(b"p", 2),
            Change::Put(b"q", 2),
            Change::Put(b"r", 2),
        ],
        false,
    ),
    // A hole in the append queue.
    Call::MergeDirectly(
        &[Change::Append(10, 20, 1), Change::Put(b"j", 1)],
        &[Change::Append(25, 30, 2)],
        false,
    ),
    // A hole in the rewrite queue.
    Call::MergeDirectly(
        &[
            Change::Append(10, 20, 1),
            Change::Put(b"j", 1),
            Change::Rewrite(10, 20, 50, Some(1)),
            Change::RewriteKey(b"j", Some(1), 50),
        ],
        &[
            Change::Append(25, 30, 2),
            Change::Rewrite(25, 30, 51, Some(2)),
        ],
        false,
    ),
    // Neighbors of two queues.
    Call::MergeDirectly(
        &[Change::Append(10, 20, 1)],
        &[
            Change::Append(25, 30, 2),
            Change::Rewrite(25, 30, 51, Some(2)),
        ],
        false,
    ),
    // The first records of a table.
    Call::MergeDirectly(&[], &[Change::Append(0, 3, 1), Change::Put(b"k", 1)], false),
    // An appended table after a hole, with as many keys, one of which was rewritten.
    Call::MergeDirectly(
        &[
            Change::Append(10, 20, 1),
            Change::Put(b"j", 1),
            Change::Put(b"k", 1),
            Change::Rewrite(10, 20, 50, Some(1)),
            Change::RewriteKey(b"j", Some(1), 50),
            Change::RewriteKey(b"k", Some(1), 50),
        ],
        &[
            Change::Append(25, 30, 2),
            Change::Put(b"a", 2),
            Change::Put(b"b", 2),
            Change::Put(b"c", 2),
            Change::Put(b"d", 2),
            Change::Put(b"e", 2),
            Change::Put(b"f", 2),
            Change::Put(b"g", 2),
            Change::Put(b"h", 2),
            Change::Put(b"i", 2),
            Change::Put(b"k", 2),
            Change::Put(b"l", 2),
            Change::Put(b"m", 2),
            Change::Put(b"n", 2),
            Change::Put(b"o", 2),
            Change::Put(b"p", 2),
            Change::Put(b"q", 2),
            Change::Put(b"r", 2),
        ],
        true,
    ),
    // One over rewritten entries.
    Call::MergeDirectly(
        &[
            Change::Append(10, 20, 1),
            Change::Rewrite(10, 20, 50, Some(1)),
        ],
        &[Change::Append(15, 18, 2)],
        true,
    ),
    // One behind an appended table.
    Call::MergeDirectly(
        &[Change::Append(10, 20, 1)],
        &[Change::Append(20, 25, 2)],
        true,
    ),
    // A rewritten table as an appended one.
    Call::MergeDirectly(
        &[
            Change::Append(10, 20, 1),
            Change::Rewrite(10, 20, 50, Some(1)),
        ],
        &[
            Change::Append(15, 18, 2),
            Change::Rewrite(15, 18, 51, Some(2)),
        ],
        true,
    ),
];

/// A table, and the live counts of its records alone.
#[derive(Drop)]
struct Counted {
    /// The table.
    table: MemTable,
    /// How many of its records are live in each queue.
    stats: GlobalStats,
    ghost counted: { IsCounted table stats },
}

impl Counted {
    /// Returns the table that `changes` make of an empty one, with the counts of its records.
    ///
    /// # Errors
    ///
    /// Those of [`MemTable::change`]; `Memory`.
    fn with_changes(alloc: Global, changes: &[Change]) -> Result<Counted> {
        let mut counted = Counted {
            table: MemTable::new(alloc, REGION),
            stats: GlobalStats::default(),
        };
        for change in changes {
            counted.make_change(alloc, *change)?;
        }
        Ok(counted)
    }

    /// Makes `change` of the table, and counts it.
    ///
    /// # Errors
    ///
    /// Those of [`MemTable::change`]; `Memory`. The table is unchanged then.
    fn make_change(&mut self, alloc: Global, change: Change) -> Result<()> {
        let change = to_table_change(alloc, change)?;
        self.table.change(change, &mut self.stats)?;
        Ok(())
    }

    /// Merges `newer` into this table, as one of the append queue if `is_append`, else as its newer neighbor.
    ///
    /// # Errors
    ///
    /// `Failed` for a table of another region; those of [`MemTable::merge_append_table`] or
    /// [`MemTable::merge_newer_neighbor`].
    fn merge_newer(&mut self, newer: &mut MemTable, is_append: bool) -> Result<()> {
        if self.table.region_id() != newer.region_id() {
            return Err(Error::Failed);
        }
        if is_append {
            self.table.merge_append_table(newer, &mut self.stats)
        } else {
            self.table.merge_newer_neighbor(newer, &mut self.stats)
        }
    }

    /// Returns three counts: of the records that are live in the append queue, of those that were written to
    /// the rewrite queue, and of those that were deleted from it.
    fn record_counts(&self) -> (usize, usize, usize) {
        (
            self.stats.live_entries(LogQueue::Append),
            self.stats.rewrite_entries(),
            self.stats.deleted_rewrite_entries(),
        )
    }

    /// Tests whether the live count of `queue` is that of the table's records.
    fn is_counted(&self, queue: LogQueue) -> bool {
        self.stats.live_entries(queue) as u128 == self.table.records(queue)
    }
}

/// Merges the table that the changes `newer` make into the one that the changes `older` make, as one of the
/// append queue if `is_append`, else as the newer neighbor. Adds a line with the result and both tables.
/// Notes in `found` whether the counts agree with the table, after `Memory` too, and whether both tables are
/// unchanged after any other error.
///
/// # Errors
///
/// `Memory`, and those of the changes. Any other error of the merge is the result in the line.
pub(crate) fn merge_tables(
    found: &mut Found,
    older: &[Change],
    newer: &[Change],
    is_append: bool,
) -> Result<()> {
    let mut older = Counted::with_changes(found.alloc, older)?;
    let mut newer = Counted::with_changes(found.alloc, newer)?.table;
    let before = (
        hash_of_table(&older.table),
        older.record_counts(),
        hash_of_table(&newer),
    );
    let answer = older.merge_newer(&mut newer, is_append);
    found.note_what_refusal_left(
        older.is_counted(LogQueue::Append) && older.is_counted(LogQueue::Rewrite),
    );
    found.note_what_refusal_left(older.table.region_id() == REGION && newer.region_id() == REGION);
    if is_lack_of_memory(&answer) {
        return answer;
    }
    let after = (
        hash_of_table(&older.table),
        older.record_counts(),
        hash_of_table(&newer),
    );
    found.note_what_refusal_left(answer.is_ok() || after == before);
    print_merged(found, answer_word(&answer), &older, &newer)
}

/// Adds a line with `is`, the word for the result of a merge, and what both tables have: indexes, blocks,
/// keys, least files and counts.
///
/// # Errors
///
/// `Memory` alone.
fn print_merged(found: &mut Found, is: &str, older: &Counted, newer: &MemTable) -> Result<()> {
    let alloc = found.alloc;
    let (first, end, blocks, append, rewrite) = ends_and_files(&older.table);
    let keys = older.table.key_count();
    let (live, written, deleted) = older.record_counts();
    let (newer_first, newer_end, ..) = ends_and_files(newer);
    let newer_keys = newer.key_count();
    found.append_line(format!(in alloc;
        "{is}: {first}..{end} in {blocks} keys {keys} files {append} {rewrite}, append {live} written {written} deleted {deleted}, newer {newer_first}..{newer_end} keys {newer_keys}"
    )?.as_str())
}
