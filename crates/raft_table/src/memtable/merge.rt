//! Merges of two tables of one region.
//!
//! By the *start rule* of the append queue, a run that leaves a hole is refused; by that of the rewrite
//! queue, it replaces all entries. By both, it else replaces the entries from its first index on.

ghost use Rattle.std.specs.Prelude.{◌≡◌, ◌≢◌, ◌+◌, ◌<◌, ◌≤◌, ◌^◌, [], OnOk, IfErr, Some};
ghost use Rattle.raft_table.specs.Common.{LogQueue, Append, Rewrite, live, pairs_over, pair_count, counts_after_merge, counts_with_keys, counts_with_others, joint_queue, append_rule, after_merge, after_newer, after_appended};
ghost use Rattle.raft_table.specs.Common.{IsTableMergeFault, count_in, other, empty_table, live_of, IsCounted, IsRecounted};
ghost use Rattle.std.specs.FinMap as finite;

use crate::global_stats::GlobalStats;
use crate::memtable::MemTable;
use crate::memtable::key_values::KeyValues;
use raft_base::{Error, LogQueue, Result};

impl MemTable {
    /// Moves the records of `rhs` into this table, counts them, and leaves `rhs` empty. `rhs` is the table of
    /// the same region that the batches right after this table's give; its records aren't counted yet. Its
    /// entries are put as a replay of their queue puts them ([`MemTable::replay_append`],
    /// [`MemTable::replay_rewrite`]), its key values replace those of the same keys, and its atomic group, if
    /// it has one, replaces this table's.
    ///
    /// # Errors
    ///
    /// `InvalidArgument` if the two tables together have records in both queues; `Corruption` if the entries
    /// leave a hole in the append queue; `Full` if the records of `rhs`, added to all that are counted, would
    /// be more than 2^64 - 1 in a queue. Both tables and the counts are unchanged then. After `Memory` both
    /// tables may have changed, and some records may be lost; the counts still agree with this table.
    pub fn merge_newer_neighbor(
        &mut self,
        rhs: &mut MemTable,
        stats: &mut GlobalStats,
    ) -> Result<()>
        requires region { self.old.region_id ≡ rhs.old.region_id }
        requires counted { IsCounted self.old stats.old }
        ensures ok { OnOk result (after_newer self.old rhs.old (joint_queue self.old rhs.old)
            ≡ Some self.new) }
        ensures emptied { OnOk result (rhs.new ≡ empty_table rhs.old.region_id) }
        ensures fault { IfErr result (IsTableMergeFault stats.old self.old rhs.old
            (joint_queue self.old rhs.old)) }
        ensures err { IfErr result (λ e. e ≢ Error.Memory →
            (self.new ≡ self.old) × (rhs.new ≡ rhs.old) × (stats.new ≡ stats.old)) }
        ensures counts { OnOk result (stats.new
            ≡ counts_after_merge (joint_queue self.old rhs.old) self.old rhs.old stats.old) }
        ensures recounted { IsRecounted self.old self.new stats.old stats.new }
        ensures regions { (self.new.region_id ≡ self.old.region_id) ×
            (rhs.new.region_id ≡ rhs.old.region_id) }
    {
        let Some(queue) = self.queue_of_all_records(rhs) else {
            return Err(Error::invalid_argument(
                self.entries.allocator(),
                "tables of two queues are no neighbors",
            ));
        };
        if !stats.has_room(rhs) {
            return Err(Error::Full);
        }
        self.merge_by_rule(queue, rhs, queue, stats)?;
        self.take_atomic_group(rhs);
        Ok(())
    }

    /// Moves the records of `rhs`, the table of the same region that the append queue gives, into this one,
    /// which the rewrite queue gives. Counts them, as they aren't counted yet, and leaves `rhs` empty.
    /// Entries of this table below those of `rhs` stay if they reach up to them, and are dropped otherwise.
    /// The key values of `rhs` replace those of the same keys.
    ///
    /// # Errors
    ///
    /// `InvalidArgument` if this table has records in the append queue, or `rhs` has some in the rewrite
    /// queue or an atomic group; `Full` if the records of `rhs`, added to all that are counted, would be more
    /// than 2^64 - 1 in a queue. Both tables and the counts are unchanged then. After `Memory` both tables
    /// may have changed, and some records may be lost; the counts still agree with this table.
    pub fn merge_append_table(&mut self, rhs: &mut MemTable, stats: &mut GlobalStats) -> Result<()>
        requires region { self.old.region_id ≡ rhs.old.region_id }
        requires counted { IsCounted self.old stats.old }
        ensures ok { OnOk result (after_appended self.old rhs.old (append_rule self.old rhs.old)
            ≡ Some self.new) }
        ensures emptied { OnOk result (rhs.new ≡ empty_table rhs.old.region_id) }
        ensures fault { IfErr result (IsTableMergeFault stats.old self.old rhs.old
            (append_rule self.old rhs.old)) }
        ensures err { IfErr result (λ e. e ≢ Error.Memory →
            (self.new ≡ self.old) × (rhs.new ≡ rhs.old) × (stats.new ≡ stats.old)) }
        ensures counts { OnOk result (stats.new
            ≡ counts_after_merge (Some Append) self.old rhs.old stats.old) }
        ensures recounted { IsRecounted self.old self.new stats.old stats.new }
        ensures regions { (self.new.region_id ≡ self.old.region_id) ×
            (rhs.new.region_id ≡ rhs.old.region_id) }
    {
        let Some(rule) = self.start_rule_for_append(rhs) else {
            return Err(Error::invalid_argument(
                self.entries.allocator(),
                "only an appended table without atomic group merges into a rewritten one",
            ));
        };
        if !stats.has_room(rhs) {
            return Err(Error::Full);
        }
        self.merge_by_rule(rule, rhs, LogQueue::Append, stats)
    }

    /// Returns the queue that all records of this table and of `rhs` are in, or the append queue if there are
    /// none. Returns `None` if both queues have some.
    fn queue_of_all_records(&self, rhs: &MemTable) -> Option<LogQueue>
        ensures { result ≡ joint_queue self.now rhs.now }
    {
        if self.records(LogQueue::Rewrite) > 0 || rhs.records(LogQueue::Rewrite) > 0 {
            if self.records(LogQueue::Append) > 0 || rhs.records(LogQueue::Append) > 0 {
                return None;
            }
            return Some(LogQueue::Rewrite);
        }
        Some(LogQueue::Append)
    }

    /// Returns the queue whose start rule applies when `rhs`, an appended table, is merged into this
    /// rewritten one: the rewrite queue, so that a hole drops the old entries. Returns `None` if this table
    /// has appended records, or `rhs` has rewritten ones or an atomic group.
    fn start_rule_for_append(&self, rhs: &MemTable) -> Option<LogQueue>
        ensures { result ≡ append_rule self.now rhs.now }
    {
        if self.records(LogQueue::Append) > 0
            || rhs.records(LogQueue::Rewrite) > 0
            || rhs.atomic_group.is_some()
        {
            return None;
        }
        Some(LogQueue::Rewrite)
    }

    /// Moves the entries of `rhs` into this table by the start rule of `rule`, and its key values over those
    /// of the same keys, and counts them. The records of `rhs` are all in `queue`, and not counted yet.
    /// Atomic groups are left to the caller.
    ///
    /// # Errors
    ///
    /// `Corruption` if the entries leave a hole and `rule` is the append queue. Both tables and the counts
    /// are unchanged then. After `Memory` both tables may have changed, and the counts still agree with this
    /// one.
    pub(super) fn merge_by_rule(
        &mut self,
        rule: LogQueue,
        rhs: &mut MemTable,
        queue: LogQueue,
        stats: &mut GlobalStats,
    ) -> Result<()>
        requires alone { live_of (other queue) rhs.old ≡ 0 }
        requires rewritten { queue ≡ Rewrite → live_of Append self.old ≡ 0 }
        requires counted { IsCounted self.old stats.old }
        requires room { (q : LogQueue) → live q stats.old + live_of q rhs.old < 2 ^ 64 }
        ensures ok { OnOk result (after_merge rule self.old rhs.old ≡ Some self.new) }
        ensures emptied { OnOk result (rhs.new ≡ record rhs.old
            { entries = []; keys = finite.empty }) }
        ensures fault { IfErr result (IsTableMergeFault stats.old self.old rhs.old (Some rule)) }
        ensures err { IfErr result (λ e. e ≢ Error.Memory →
            (self.new ≡ self.old) × (rhs.new ≡ rhs.old) × (stats.new ≡ stats.old)) }
        ensures counts { OnOk result (stats.new
            ≡ counts_after_merge (Some queue) self.old rhs.old stats.old) }
        ensures recounted { IsRecounted self.old self.new stats.old stats.new }
        ensures regions { (self.new.region_id ≡ self.old.region_id) ×
            (rhs.new.region_id ≡ rhs.old.region_id) }
    {
        self.entries
            .absorb(self.region_id, rule, &mut rhs.entries, queue, stats)?;
        absorb_keys(&mut self.keys, &mut rhs.keys, stats)
    }
}

/// Moves the key values of `newer`, which aren't counted yet, into `keys`, in place of those of the same
/// keys, and counts the change. Leaves `newer` empty.
///
/// # Errors
///
/// `Memory` alone. Some of the key values have then been moved and counted, one is lost, and the others are
/// left in `newer`.
fn absorb_keys(keys: &mut KeyValues, newer: &mut KeyValues, stats: &mut GlobalStats) -> Result<()>
    requires room { (q : LogQueue) → live q stats.old + pair_count q newer.old < 2 ^ 64 }
    requires counted { (q : LogQueue) → pair_count q keys.old ≤ live q stats.old }
    ensures ok { OnOk result (keys.new ≡ pairs_over newer.old keys.old) }
    ensures emptied { OnOk result (newer.new ≡ finite.empty) }
    ensures memory { IfErr result (λ e. e ≡ Error.Memory) }
    ensures counts { stats.new ≡ counts_with_keys keys.old keys.new stats.old }
    ensures recounted { (q : LogQueue) →
        live q stats.new + pair_count q keys.old ≡ live q stats.old + pair_count q keys.new }
{
    let appended = keys.count_in(LogQueue::Append);
    let rewritten = keys.count_in(LogQueue::Rewrite);
    let absorbed = keys.absorb(newer);
    update_live_count(stats, LogQueue::Append, appended, keys);
    update_live_count(stats, LogQueue::Rewrite, rewritten, keys);
    absorbed?;
    Ok(())
}

/// Changes the live count of `queue` from the `before` key values that were counted to those that `keys` has
/// there now.
fn update_live_count(stats: &mut GlobalStats, queue: LogQueue, before: usize, keys: &KeyValues)
    requires counted { before ≤ live queue stats.old }
    requires room { live queue stats.old + pair_count queue keys.now < 2 ^ 64 + before }
    ensures counts { stats.new
        ≡ counts_with_others queue before (pair_count queue keys.now) stats.old }
    ensures live { (q : LogQueue) → live q stats.new + count_in q queue before
        ≡ live q stats.old + count_in q queue (pair_count queue keys.now) }
{
    let after = keys.count_in(queue);
    if after <= before {
        stats.delete(queue, before - after);
    } else {
        stats.add_fitting(queue, after - before);
    }
}
