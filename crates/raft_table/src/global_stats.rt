//! [`GlobalStats`]: how many records of all regions are live in each queue.

ghost use Rattle.std.specs.Prelude.{◌≡◌, ◌+◌, ◌^◌, ◌<◌, ◌≤◌, IsOk, IfOk, OnOk, OnErr, IfErr, MatchBool};
ghost use Rattle.raft_table.specs.Common.{LogQueue, Rewrite, count_in, live, with_added, with_deleted, without_deleted, after_refusal, live_of, IsCounted, with_table_added, with_table_deleted};

use crate::memtable::MemTable;
use raft_base::{Error, LogQueue, Result};
use std::marker::Model;

/// The number of live records of all regions, for each queue. A record is an entry or a key value; it is live
/// as long as it is in a table.
///
/// For the append queue one number rises and falls. For the rewrite queue two numbers rise: how many records
/// were written, and how many of those were deleted again.
#[derive(Debug, Drop)]
pub struct GlobalStats {
    /// The number of live records of the append queue.
    live_append_entries: usize,
    /// The number of records that were written to the rewrite queue.
    rewrite_entries: usize,
    /// How many of these were deleted again, so that the others are live.
    deleted_rewrite_entries: usize,
}

impl Model for GlobalStats {
    ghost use Rattle.std.specs.Prelude.{◌≤◌};
    ghost use Rattle.raft_table.specs.Counts.{Counts};

    ghost Value = { Counts };

    ghost view = { λ s. record {
      append = s.live_append_entries;
      written = s.rewrite_entries;
      deleted = s.deleted_rewrite_entries;
    } };

    ghost invariant = { λ s. s.deleted_rewrite_entries ≤ s.rewrite_entries };
}

impl Default for GlobalStats {
    ghost is_default = { λ s. s ≡ record { append = 0; written = 0; deleted = 0 } };

    /// Returns counts of no records.
    fn default() -> GlobalStats {
        GlobalStats {
            live_append_entries: 0,
            rewrite_entries: 0,
            deleted_rewrite_entries: 0,
        }
    }
}

impl GlobalStats {
    /// Counts `count` more live records of `queue`. If the number of records written to the rewrite queue
    /// would be more than 2^64 - 1, the deleted ones are subtracted from it first
    /// ([`GlobalStats::reset_rewrite_counters`]).
    ///
    /// # Errors
    ///
    /// `Full` if more than 2^64 - 1 records would be live in `queue`. No live count has changed then, but the
    /// deleted records of the rewrite queue may have been subtracted.
    pub fn add(&mut self, queue: LogQueue, count: usize) -> Result<()>
        ensures ok { OnOk result (self.new ≡ with_added queue count self.old) }
        ensures live { OnOk result ((q : LogQueue) →
            live q self.new ≡ live q self.old + count_in q queue count) }
        ensures accepted { live queue self.old + count < 2 ^ 64 → IsOk result }
        ensures full { IfErr result (λ e. (e ≡ Error.Full) ×
            (2 ^ 64 ≤ live queue self.old + count)) }
        ensures err { OnErr result (self.new ≡ after_refusal queue self.old) }
        ensures err_live { OnErr result ((q : LogQueue) → live q self.new ≡ live q self.old) }
    {
        match queue {
            LogQueue::Append => {
                self.live_append_entries = add_counts(self.live_append_entries, count)?;
            }
            LogQueue::Rewrite => {
                if usize::MAX - self.rewrite_entries < count {
                    self.reset_rewrite_counters();
                }
                self.rewrite_entries = add_counts(self.rewrite_entries, count)?;
            }
        }
        Ok(())
    }

    /// Tests whether `count` more records of `queue` can be counted: no more than 2^64 - 1 would be live in
    /// it.
    pub fn can_add(&self, queue: LogQueue, count: usize) -> bool
        ensures { MatchBool result (live queue self.now + count < 2 ^ 64)
            (2 ^ 64 ≤ live queue self.now + count) }
    {
        count <= usize::MAX - self.live_entries(queue)
    }

    /// Counts `count` more live records of `queue`. There must be room for them ([`GlobalStats::can_add`]),
    /// so it can't fail.
    pub(crate) fn add_fitting(&mut self, queue: LogQueue, count: usize)
        requires { live queue self.old + count < 2 ^ 64 }
        ensures after { self.new ≡ with_added queue count self.old }
        ensures live { (q : LogQueue) → live q self.new ≡ live q self.old + count_in q queue count }
    {
        if self.add(queue, count).is_err() {
            unreachable!()
        }
    }

    /// Counts `count` records that were written to the rewrite queue, but to which no live record moved: as
    /// written, and as deleted at once. No live count changes.
    ///
    /// # Errors
    ///
    /// `Full` if `count` and the live records of the rewrite queue are more than 2^64 - 1 together. The
    /// counts are unchanged then.
    pub(crate) fn add_unmoved(&mut self, count: usize) -> Result<()>
        ensures ok { OnOk result (self.new
            ≡ with_deleted Rewrite count (with_added Rewrite count self.old)) }
        ensures live { OnOk result ((q : LogQueue) → live q self.new ≡ live q self.old) }
        ensures full { IfErr result (λ e. (e ≡ Error.Full) ×
            (2 ^ 64 ≤ live Rewrite self.old + count)) }
        ensures err { OnErr result (self.new ≡ self.old) }
    {
        if !self.can_add(LogQueue::Rewrite, count) {
            return Err(Error::Full);
        }
        self.add_fitting(LogQueue::Rewrite, count);
        self.delete(LogQueue::Rewrite, count);
        Ok(())
    }

    /// Counts `count` live records of `queue` as no longer live. In the rewrite queue they are counted as
    /// deleted. No more than are live may be deleted.
    pub fn delete(&mut self, queue: LogQueue, count: usize)
        requires { count ≤ live queue self.old }
        ensures after { self.new ≡ with_deleted queue count self.old }
        ensures live { (q : LogQueue) → live q self.new + count_in q queue count ≡ live q self.old }
    {
        match queue {
            LogQueue::Append => self.live_append_entries -= count,
            LogQueue::Rewrite => self.deleted_rewrite_entries += count,
        }
    }

    /// Counts all records of `table` as live, each in its queue.
    ///
    /// # Errors
    ///
    /// `Full` if more than 2^64 - 1 records would be live in a queue. The counts are unchanged then.
    pub fn add_table(&mut self, table: &MemTable) -> Result<()>
        ensures ok { OnOk result (self.new ≡ with_table_added table.now self.old) }
        ensures live { OnOk result ((q : LogQueue) →
            live q self.new ≡ live q self.old + live_of q table.now) }
        ensures accepted { ((q : LogQueue) → live q self.old + live_of q table.now < 2 ^ 64) →
            IsOk result }
        ensures full { IfErr result (λ e. (e ≡ Error.Full) × ((q : LogQueue)
            × (2 ^ 64 ≤ live q self.old + live_of q table.now))) }
        ensures err { OnErr result (self.new ≡ self.old) }
    {
        if !self.has_room(table) {
            return Err(Error::Full);
        }
        self.add_fitting(LogQueue::Append, table.records(LogQueue::Append) as usize);
        self.add_fitting(LogQueue::Rewrite, table.records(LogQueue::Rewrite) as usize);
        Ok(())
    }

    /// Counts all records of `table`, which must be counted as live, as no longer live, each in its queue.
    pub fn delete_table(&mut self, table: &MemTable)
        requires { IsCounted table.now self.old }
        ensures after { self.new ≡ with_table_deleted table.now self.old }
        ensures live { (q : LogQueue) → live q self.new + live_of q table.now ≡ live q self.old }
    {
        self.delete_records(table, LogQueue::Append);
        self.delete_records(table, LogQueue::Rewrite);
    }

    /// Tests whether [`GlobalStats::add_table`] can count all records of `table`: no more than 2^64 - 1 would
    /// be live in either queue.
    pub fn has_room(&self, table: &MemTable) -> bool
        ensures { MatchBool result
            ((q : LogQueue) → live q self.now + live_of q table.now < 2 ^ 64)
            ((q : LogQueue) × (2 ^ 64 ≤ live q self.now + live_of q table.now)) }
    {
        self.has_room_in(table, LogQueue::Append) && self.has_room_in(table, LogQueue::Rewrite)
    }

    /// Tests whether the records that `table` has in `queue` can be counted: no more than 2^64 - 1 would be
    /// live in it.
    fn has_room_in(&self, table: &MemTable, queue: LogQueue) -> bool
        ensures { MatchBool result (live queue self.now + live_of queue table.now < 2 ^ 64)
            (2 ^ 64 ≤ live queue self.now + live_of queue table.now) }
    {
        table.records(queue) <= (usize::MAX - self.live_entries(queue)) as u128
    }

    /// Counts the records that `table` has in `queue`, which must be counted as live, as no longer live.
    fn delete_records(&mut self, table: &MemTable, queue: LogQueue)
        requires { live_of queue table.now ≤ live queue self.old }
        ensures after { self.new ≡ with_deleted queue (live_of queue table.now) self.old }
        ensures live { (q : LogQueue) → live q self.new + count_in q queue (live_of queue table.now)
            ≡ live q self.old }
    {
        let live = self.live_entries(queue);
        let count = table.records(queue);
        prove!(count <= live as u128);
        self.delete(queue, count as usize);
    }

    /// Returns how many records are live in `queue`: entries and key values.
    pub fn live_entries(&self, queue: LogQueue) -> usize
        ensures { result ≡ live queue self.now }
    {
        match queue {
            LogQueue::Append => self.live_append_entries,
            LogQueue::Rewrite => self.rewrite_entries - self.deleted_rewrite_entries,
        }
    }

    /// Returns how many records were written to the rewrite queue: those that are live, and those that were
    /// deleted since the deleted ones were last subtracted ([`GlobalStats::reset_rewrite_counters`]).
    pub fn rewrite_entries(&self) -> usize
        ensures { result ≡ self.now.written }
    {
        self.rewrite_entries
    }

    /// Returns how many of the records that [`GlobalStats::rewrite_entries`] counts were deleted again.
    pub fn deleted_rewrite_entries(&self) -> usize
        ensures { result ≡ self.now.deleted }
    {
        self.deleted_rewrite_entries
    }

    /// Subtracts the deleted records of the rewrite queue from those that were written to it, and sets their
    /// number to 0. No live count changes.
    pub fn reset_rewrite_counters(&mut self)
        ensures after { self.new ≡ without_deleted self.old }
        ensures live { (q : LogQueue) → live q self.new ≡ live q self.old }
    {
        self.rewrite_entries -= self.deleted_rewrite_entries;
        self.deleted_rewrite_entries = 0;
    }
}

/// Returns the sum of the counts `a` and `b`.
///
/// # Errors
///
/// `Full` if it is more than 2^64 - 1.
fn add_counts(a: usize, b: usize) -> Result<usize>
    ensures ok { IfOk result (λ s. s ≡ a + b) }
    ensures accepted { a + b < 2 ^ 64 → IsOk result }
    ensures full { IfErr result (λ e. (e ≡ Error.Full) × (2 ^ 64 ≤ a + b)) }
{
    a.checked_add(b).ok_or(Error::Full)
}
