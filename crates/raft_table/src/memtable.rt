//! [`MemTable`], the table of a region: where its entries are, its key values, and the files of its atomic
//! group.
//!
//! A *run* is entries with consecutive indexes; its *end* is the index after that of the last one. A run that
//! is put into a table replaces the entries from its first index on, so that the entries of a table are
//! always one run. A run that starts above the end of the entries leaves a *hole*: the append queue refuses
//! it, and in the rewrite queue it replaces all entries. A record is an entry or a key value; it is *live* as
//! long as it is in a table.

ghost use Rattle.std.specs.Prelude.{◌≡◌, ◌≢◌, ◌+◌, ◌≤◌, ◌^◌, false, length, MatchOption, OnOk, OnErr, IfErr, Some, [], MatchBool, option_map};
ghost use Rattle.raft_table.specs.Common.{LogQueue, Append, Rewrite, end_of, IsRunIn, AreTableEntries, start_of, entry_at, entry_count, below, from, blocks_shown, entries_in_blocks, AreDistinctBlocks, Counts, live, with_added, block_count};
ghost use Rattle.raft_table.specs.Common.{value_at, file_at, empty_table, live_of, IsCounted, IsRecounted, after_append, after_replay, after_rewrite, after_rewrite_key, with_pair, with_pair_deleted, with_rewritten_key, MovesKeyAlone};
ghost use Rattle.raft_table.specs.Common.{leaves_append, IsTablePutFault, IsKeyRewriteFault, entries_after_rewrite, counts_after_rewrite, IsRewriteFault, MovesPlacesAlone, count_in, other, run_shown, entries_after_append};
ghost use Rattle.raft_table.specs.Common.{entries_after_replay, counts_with_run, counts_without, IsTableRunFault};
ghost use Rattle.std.specs.FinMap as finite;

mod block;
mod change;
mod deleted_keys;
mod entries;
mod hole;
mod join_under_mark;
mod key_values;
mod mark;
mod merge;
mod queries;
mod run;
mod steps;

use crate::global_stats::GlobalStats;
pub use block::Block;
pub use change::{
    TableChange, entries_stand_by_index, is_run, last_words_stand, newer_pairs_win,
    rewriting_stands_by_index,
};
pub use deleted_keys::DeletedKeys;
use entries::Entries;
#[doc(hidden)]
pub use hole::hole_error;
use key_values::KeyValues;
pub use mark::Mark;
pub use queries::{
    fetches_answer_ranges, full_runs_pass_the_limit, least_is_lowest, scans_visit_pairs,
    tables_add_up,
};
use raft_base::{EntryIndex, Error, FileId, FileSeq, LogQueue, Result};
pub use run::{Run, marks_stand_for_steps, overlays_by_marks, overlays_reach_without_truncations};
use std::alloc::Global;
use std::collections::VecDeque;
use std::marker::Model;

/// The table of a region: where its entries are, its key values, and the files of its atomic group. Entries
/// whose place is in the append queue are *appended*, the others *rewritten*; the rewritten ones come first.
///
/// Calls that change its records also change the live counts `stats`, in which the records of the table must
/// be counted.
#[derive(Drop)]
pub struct MemTable {
    /// The id of the region.
    region_id: u64,
    /// The entries of the region.
    entries: Entries,
    /// The key values of the region.
    keys: KeyValues,
    /// The first and the last file of the region's atomic group in the rewrite queue, if one was applied.
    atomic_group: Option<(FileSeq, FileSeq)>,
}

impl Model for MemTable {
    ghost use Rattle.raft_table.specs.Table.{Table};
    ghost use Rattle.raft_table.specs.TableCode.{table_code};

    ghost Value = { Table };

    ghost coded = { table_code };

    ghost use Rattle.raft_table.specs.TableView.{table_shown};

    ghost view = { table_shown };
}

impl MemTable {
    /// Returns a table of the region `region_id` without records. It will allocate from `alloc`, and
    /// allocates nothing yet.
    pub fn new(alloc: Global, region_id: u64) -> MemTable
        ensures empty { result ≡ empty_table region_id }
        ensures counted { (counts : Counts) → IsCounted result counts }
    {
        MemTable {
            region_id,
            entries: Entries::new(alloc),
            keys: KeyValues::new(alloc),
            atomic_group: None,
        }
    }

    /// States that the entries of a table are one run, each has a place, and the rewritten ones come before
    /// the appended ones. This is a law: it computes nothing.
    pub fn holds_one_run(&self)
        ensures { AreTableEntries self.now.entries }
    {
        self.entries.holds_one_run();
    }

    /// Returns the id of the table's region.
    pub fn region_id(&self) -> u64
        ensures { result ≡ self.now.region_id }
    {
        self.region_id
    }

    /// Returns the number of entries whose place is in the rewrite queue.
    pub fn rewrite_count(&self) -> usize
        ensures { result ≡ entry_count Rewrite self.now.entries }
    {
        self.entries.count_in(LogQueue::Rewrite)
    }

    /// Returns the index of the first entry, or `None` if there are no entries.
    pub fn first_index(&self) -> Option<u64>
        ensures { MatchOption result (self.now.entries ≡ [])
            (λ i. (self.now.entries ≢ []) × (i ≡ start_of self.now.entries)) }
    {
        self.entries.first_index()
    }

    /// Returns the index of the last entry, or `None` if there are no entries.
    pub fn last_index(&self) -> Option<u64>
        ensures { MatchOption result (self.now.entries ≡ [])
            (λ i. i + 1 ≡ end_of self.now.entries) }
    {
        self.entries.last_index()
    }

    /// Returns the blocks of the entries, in order of their indexes. No block is empty, and neighboring
    /// blocks have different places.
    pub fn blocks(&self) -> &VecDeque<Block>
        ensures entries { entries_in_blocks (start_of self.now.entries)
            (blocks_shown result.now.items) ≡ self.now.entries }
        ensures distinct { AreDistinctBlocks (blocks_shown result.now.items) }
        ensures count { length result.now.items ≡ block_count self.now.entries }
    {
        self.entries.blocks()
    }

    /// Returns the numbers of the first and the last file of the region's atomic group in the rewrite queue,
    /// or `None` if no group was applied.
    pub fn atomic_group(&self) -> Option<(FileSeq, FileSeq)>
        ensures { result ≡ self.now.atomic_group }
    {
        self.atomic_group
    }

    /// Returns the number of entries and key values whose place or file is in `queue`.
    pub fn records(&self, queue: LogQueue) -> u128
        ensures { result ≡ live_of queue self.now }
    {
        self.entries.count_in(queue) as u128 + self.keys.count_in(queue) as u128
    }

    /// Returns the entry at `index`, with its place, or `None` if the table has no entry there.
    pub fn get_entry(&self, index: u64) -> Option<EntryIndex>
        ensures { result ≡ entry_at index self.now.entries }
    {
        self.entries.get(index)
    }

    /// Returns the value of `key`, or `None` if it has none.
    pub fn get(&self, key: &[u8]) -> Option<&[u8]>
        ensures { option_map (λ v. v.now) result ≡ value_at self.now.keys key.now }
    {
        self.keys.get(key)
    }

    /// Puts `run`, which was newly written to the append queue, after the entries below its first index, and
    /// drops all other entries. A run without entries changes nothing.
    ///
    /// Rewritten entries that are dropped stay in the files of the rewrite queue. If the append file with the
    /// run is deleted before the rewrite queue has a truncation at the first index of the run, recovery may
    /// bring them back.
    ///
    /// # Errors
    ///
    /// `Corruption` if the run starts below the first entry or leaves a hole after the last one; the text for
    /// a hole names the region, the first index of the run and the end of the entries. `Full` if more than
    /// 2^64 - 1 records would be live in the append queue. `Memory`. The table and the counts are unchanged
    /// then.
    pub fn append(&mut self, run: Vec<EntryIndex>, stats: &mut GlobalStats) -> Result<()>
        requires run { IsRunIn Append run.items }
        requires counted { IsCounted self.old stats.old }
        ensures ok { OnOk result (after_append self.old run.items ≡ Some self.new) }
        ensures fault { IfErr result (IsTableRunFault Append stats.old self.old.entries
            (entries_after_append self.old.entries run.items)) }
        ensures err { OnErr result ((self.new ≡ self.old) × (stats.new ≡ stats.old)) }
        ensures counts { OnOk result (stats.new
            ≡ counts_with_run Append self.old.entries run.items stats.old) }
        ensures recounted { IsRecounted self.old self.new stats.old stats.new }
        ensures region { self.new.region_id ≡ self.old.region_id }
    {
        self.entries.append(self.region_id, run, stats)
    }

    /// Puts `run`, which was read from the append queue, after the entries below its first index, and drops
    /// all other entries. A run that starts below the first entry replaces all entries. A run without entries
    /// changes nothing.
    ///
    /// # Errors
    ///
    /// `Corruption` if the run leaves a hole after the last entry; `Full` if more than 2^64 - 1 records would
    /// be live in the append queue; `Memory`. The table and the counts are unchanged then.
    pub fn replay_append(&mut self, run: Vec<EntryIndex>, stats: &mut GlobalStats) -> Result<()>
        requires run { IsRunIn Append run.items }
        requires counted { IsCounted self.old stats.old }
        ensures ok { OnOk result (after_replay Append self.old run.items ≡ Some self.new) }
        ensures fault { IfErr result (IsTableRunFault Append stats.old self.old.entries
            (entries_after_replay Append self.old.entries run.items)) }
        ensures err { OnErr result ((self.new ≡ self.old) × (stats.new ≡ stats.old)) }
        ensures counts { OnOk result (stats.new
            ≡ counts_with_run Append self.old.entries run.items stats.old) }
        ensures recounted { IsRecounted self.old self.new stats.old stats.new }
        ensures region { self.new.region_id ≡ self.old.region_id }
    {
        self.entries
            .replay_run(self.region_id, &run, LogQueue::Append, stats)
    }

    /// Puts `run`, which was read from the rewrite queue, after the entries below its first index, and drops
    /// all other entries. A run that starts below the first entry, or leaves a hole after the last one,
    /// replaces all entries. A run without entries changes nothing. The table must have no records of the
    /// append queue.
    ///
    /// # Errors
    ///
    /// `Full` if more than 2^64 - 1 records would be live in the rewrite queue; `Memory`. The table and the
    /// counts are unchanged then.
    pub fn replay_rewrite(&mut self, run: Vec<EntryIndex>, stats: &mut GlobalStats) -> Result<()>
        requires run { IsRunIn Rewrite run.items }
        requires rewritten { live_of Append self.old ≡ 0 }
        requires counted { IsCounted self.old stats.old }
        ensures ok { OnOk result (after_replay Rewrite self.old run.items ≡ Some self.new) }
        ensures fault { IfErr result (IsTableRunFault Rewrite stats.old self.old.entries
            (entries_after_replay Rewrite self.old.entries run.items)) }
        ensures err { OnErr result ((self.new ≡ self.old) × (stats.new ≡ stats.old)) }
        ensures counts { OnOk result (stats.new
            ≡ counts_with_run Rewrite self.old.entries run.items stats.old) }
        ensures recounted { IsRecounted self.old self.new stats.old stats.new }
        ensures region { self.new.region_id ≡ self.old.region_id }
    {
        self.entries
            .replay_run(self.region_id, &run, LogQueue::Rewrite, stats)
    }

    /// Puts a run of `queue` as [`MemTable::replay_append`] or [`MemTable::replay_rewrite`] does, and returns
    /// whether it did. It returns false if that call would be refused, or the table has records of the other
    /// queue; the table and the counts are unchanged then. Recovery tries this first, and after false makes
    /// the slower call, which gives the error.
    #[doc(hidden)]
    #[inline(always)]
    pub fn try_replay(&mut self, queue: LogQueue, run: &Run<'_>, stats: &mut GlobalStats) -> bool
        requires run { IsRunIn queue (run_shown run.now) }
        requires counted { IsCounted self.old stats.old }
        ensures done { MatchBool result
            ((after_replay queue self.old (run_shown run.now) ≡ Some self.new)
            × (live_of (other queue) self.old ≡ 0)
            × (stats.new ≡ counts_with_run queue self.old.entries (run_shown run.now) stats.old))
            ((self.new ≡ self.old) × (stats.new ≡ stats.old)) }
        ensures recounted { IsRecounted self.old self.new stats.old stats.new }
        ensures region { self.new.region_id ≡ self.old.region_id }
    {
        if self.records(queue.other()) > 0 {
            return false;
        }
        let Some(first) = run.first_index() else {
            return true;
        };
        let Some(keep) = self.entries.count_kept_by_rule(queue, first) else {
            return false;
        };
        self.entries
            .put_and_count_run(keep, run, queue, stats)
            .is_ok()
    }

    /// Moves entries to the places of `run`, which was written to the rewrite queue with copies of entries of
    /// this table. Entries move from the first index that table and run share, up to the first entry that may
    /// not move: with a `gate`, an entry may move if the number of its file is at most `gate`; without one,
    /// if it is rewritten already. Indexes and key values stay. A run without entries changes nothing.
    ///
    /// The whole run is counted as written to the rewrite queue. Entries of the run to which nothing moved,
    /// and the old places of those that moved, are counted as no longer live.
    ///
    /// # Errors
    ///
    /// `Corruption` if there are appended entries below the first shared index or, with a `gate`, the entry
    /// at that index is rewritten already; `Full` if the live records of the rewrite queue and the run
    /// together would be more than 2^64 - 1; `Memory`. The table and the counts are unchanged then.
    pub fn rewrite(
        &mut self,
        run: Vec<EntryIndex>,
        gate: Option<FileSeq>,
        stats: &mut GlobalStats,
    ) -> Result<()>
        requires run { IsRunIn Rewrite run.items }
        requires counted { IsCounted self.old stats.old }
        ensures ok { OnOk result (after_rewrite gate self.old run.items ≡ Some self.new) }
        ensures places_alone { OnOk result (MovesPlacesAlone run.items self.old.entries
            self.new.entries) }
        ensures others { OnOk result (self.new ≡ record self.old { entries = self.new.entries }) }
        ensures counts { OnOk result (stats.new
            ≡ counts_after_rewrite gate run.items self.old.entries stats.old) }
        ensures fault { IfErr result (IsRewriteFault (length run.items) stats.old
            (entries_after_rewrite gate run.items self.old.entries)) }
        ensures err { OnErr result ((self.new ≡ self.old) × (stats.new ≡ stats.old)) }
        ensures recounted { IsRecounted self.old self.new stats.old stats.new }
        ensures region { self.new.region_id ≡ self.old.region_id }
    {
        self.entries.rewrite(&run, gate, stats)
    }

    /// Drops the entries below `index`, subtracts them from the live counts, and returns how many it dropped.
    pub fn compact_to(&mut self, index: u64, stats: &mut GlobalStats) -> u64
        requires { IsCounted self.old stats.old }
        ensures compacted { self.new ≡ record self.old { entries = from index self.old.entries } }
        ensures dropped { result + length self.new.entries ≡ length self.old.entries }
        ensures counts { stats.new ≡ counts_without (below index self.old.entries) stats.old }
        ensures recounted { IsRecounted self.old self.new stats.old stats.new }
        ensures region { self.new.region_id ≡ self.old.region_id }
    {
        self.entries.compact_to(index, stats)
    }

    /// Drops the entries at or above `index`, subtracts them from the live counts, and returns how many it
    /// dropped.
    ///
    /// Rewritten entries that are dropped stay in the files of the rewrite queue. If the append file with the
    /// truncation is deleted before the rewrite queue has the same command, recovery may bring them back.
    pub fn truncate_from(&mut self, index: u64, stats: &mut GlobalStats) -> u64
        requires { IsCounted self.old stats.old }
        ensures truncated { self.new ≡ record self.old { entries = below index self.old.entries } }
        ensures dropped { result + length self.new.entries ≡ length self.old.entries }
        ensures counts { stats.new ≡ counts_without (from index self.old.entries) stats.old }
        ensures recounted { IsRecounted self.old self.new stats.old stats.new }
        ensures region { self.new.region_id ≡ self.old.region_id }
    {
        self.entries.truncate_from(index, stats)
    }

    /// Gives `key` the value `value`, which was written to the file `file_id`, in place of the value that it
    /// may have, and counts the change.
    ///
    /// # Errors
    ///
    /// `Full` if more than 2^64 - 1 records would be live in the file's queue; `Memory`. The table and the
    /// counts are unchanged then, and `key` and `value` are dropped.
    #[inline(always)]
    pub fn put(
        &mut self,
        key: Vec<u8>,
        value: Vec<u8>,
        file_id: FileId,
        stats: &mut GlobalStats,
    ) -> Result<()>
        requires { IsCounted self.old stats.old }
        ensures ok { OnOk result (self.new ≡ with_pair self.old key.items value.items file_id) }
        ensures counts { OnOk result (stats.new
            ≡ with_added file_id.queue 1
            (with_pair_deleted (file_at self.old.keys key.items) stats.old)) }
        ensures fault { IfErr result (IsTablePutFault file_id.queue stats.old
            (file_at self.old.keys key.items)) }
        ensures err { OnErr result ((self.new ≡ self.old) × (stats.new ≡ stats.old)) }
        ensures recounted { IsRecounted self.old self.new stats.old stats.new }
        ensures region { self.new.region_id ≡ self.old.region_id }
    {
        if stats.live_entries(file_id.queue) == usize::MAX
            && !self
                .keys
                .file_of(&key)
                .is_some_and(|file| file.queue == file_id.queue)
        {
            return Err(Error::Full);
        }
        if let Some(replaced) = self.keys.insert(key, value, file_id)? {
            stats.delete(replaced.queue, 1);
        }
        stats.add(file_id.queue, 1)
    }

    /// Removes `key` with its value, and subtracts it from the live counts. Nothing changes if it has no
    /// value.
    pub fn delete(&mut self, key: &[u8], stats: &mut GlobalStats)
        requires { IsCounted self.old stats.old }
        ensures deleted { self.new
            ≡ record self.old { keys = finite.remove self.old.keys key.now } }
        ensures counts { stats.new ≡ with_pair_deleted (file_at self.old.keys key.now) stats.old }
        ensures recounted { IsRecounted self.old self.new stats.old stats.new }
        ensures region { self.new.region_id ≡ self.old.region_id }
    {
        if let Some(file) = self.keys.remove(key) {
            stats.delete(file.queue, 1);
        }
    }

    /// Moves the value of `key` to the file `seq` of the rewrite queue, to which a copy of it was written. A
    /// value in the append queue moves only if there is a `gate` and the number of its file is at most
    /// `gate`; a value in the rewrite queue always moves. One record is counted as written to the rewrite
    /// queue, even if there is no value or it doesn't move, and the live counts follow the value.
    ///
    /// # Errors
    ///
    /// `Corruption` if the value is in a file of the rewrite queue with a number above `seq`; `Full` if the
    /// live records of the rewrite queue and one more would be more than 2^64 - 1; `Memory` if there is none
    /// for the text of `Corruption`. The table and the counts are unchanged then.
    pub fn rewrite_key(
        &mut self,
        key: Vec<u8>,
        gate: Option<FileSeq>,
        seq: FileSeq,
        stats: &mut GlobalStats,
    ) -> Result<()>
        requires { IsCounted self.old stats.old }
        ensures ok { OnOk result (after_rewrite_key gate seq self.old key.items ≡ Some self.new) }
        ensures file_alone { OnOk result (MovesKeyAlone key.items self.old.keys self.new.keys) }
        ensures others { OnOk result (self.new ≡ record self.old { keys = self.new.keys }) }
        ensures counts { OnOk result (stats.new
            ≡ with_rewritten_key (leaves_append gate (file_at self.old.keys key.items)) stats.old) }
        ensures fault { IfErr result (IsKeyRewriteFault stats.old
            (after_rewrite_key gate seq self.old key.items)) }
        ensures err { OnErr result ((self.new ≡ self.old) × (stats.new ≡ stats.old)) }
        ensures recounted { IsRecounted self.old self.new stats.old stats.new }
        ensures region { self.new.region_id ≡ self.old.region_id }
    {
        let Some(file) = self.keys.file_of(&key) else {
            return stats.add_unmoved(1);
        };
        match file.queue {
            LogQueue::Append => {
                if !gate.is_some_and(|gate| file.seq <= gate) {
                    return stats.add_unmoved(1);
                }
                if !stats.can_add(LogQueue::Rewrite, 1) {
                    return Err(Error::Full);
                }
                self.keys
                    .set_file(&key, FileId::new(LogQueue::Rewrite, seq));
                stats.add_fitting(LogQueue::Rewrite, 1);
                stats.delete(LogQueue::Append, 1);
                Ok(())
            }
            LogQueue::Rewrite => {
                if seq < file.seq {
                    return Err(Error::corruption(
                        self.entries.allocator(),
                        "a key is rewritten to an older file",
                    ));
                }
                stats.add_unmoved(1)?;
                self.keys
                    .set_file(&key, FileId::new(LogQueue::Rewrite, seq));
                Ok(())
            }
        }
    }

    /// Sets the numbers of the first and the last file of the region's atomic group in the rewrite queue to
    /// `start` and `end`. `start` must be at most `end`.
    ///
    /// Recovery takes a group whole or not at all. So whoever writes a group calls this once the group has
    /// ended, for each region that it names. [`MemTable::min_file_seq`] then keeps the group's files, from
    /// the first one on, as long as the table needs one of them. The table remembers one group only: don't
    /// begin a new one that leaves records of the region in an older group, whose first file would no longer
    /// be kept.
    pub fn apply_rewrite_atomic_group(&mut self, start: FileSeq, end: FileSeq)
        requires { start ≤ end }
        ensures group { self.new ≡ record self.old { atomic_group = Some (start, end) } }
        ensures region { self.new.region_id ≡ self.old.region_id }
    {
        self.atomic_group = Some((start, end));
    }
}
