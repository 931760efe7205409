//! Joins of two tables of one region, by the region mark of the newer one ([`Mark`]).

ghost use Rattle.std.specs.Prelude.{◌≡◌, ◌≢◌, ℕ, ◌+◌, ◌≤◌, false, [], if◌then◌else◌, MatchBool, OnOk, IfOk, IfErr, Some, None, ◌^◌};
ghost use Rattle.raft_table.specs.Common.{LogQueue, IsCorruption, IsRun, end_of, live, hole_text, hole_text_above, without, pair_count, IsMarkFault, IsFaultUnder, IsRunOver, left_by, entries_within, is_missed, is_barred, is_refused_over};
ghost use Rattle.raft_table.specs.Common.{table_over, end_at_reach, newer_atomic_group, is_unjoined, overlay_under, IsOverlayFault, other, empty_table, live_of, IsCounted, IsRecounted, start_of, Append, Rewrite};
ghost use Rattle.std.specs.FinMap as finite;

use crate::global_stats::GlobalStats;
use crate::memtable::MemTable;
use crate::memtable::deleted_keys::DeletedKeys;
use crate::memtable::hole::{hole_error, hole_error_above};
use crate::memtable::mark::Mark;
use raft_base::{Error, LogQueue, Result};
use std::mem;

impl MemTable {
    /// Returns the index after that of the last entry of this table that the first run of `mark`, a newer
    /// region mark, meets. It meets the entries that are neither compacted nor truncated before it. Returns 0
    /// if there are none.
    #[doc(hidden)]
    pub fn end_at_reach(&self, mark: &Mark) -> u64
        ensures { result ≡ end_at_reach mark.now self.now }
    {
        self.entries
            .end_within(mark.reach_floor(), mark.reach_cut())
    }

    /// Puts `rhs`, the table that newer steps alone give, over this one, as their region mark `mark` says.
    /// Counts the records of `rhs`, which aren't counted yet, and leaves it empty. Returns the end of the
    /// older entries that the first run of the mark meets ([`MemTable::end_at_reach`]).
    ///
    /// `mark` and `rhs` must stand for the same steps, as those of a context do; else nothing is promised of
    /// the entries.
    ///
    /// # Errors
    ///
    /// `Corruption` if, in the append queue, one of the newer runs would leave a hole after the older
    /// entries; `Full` if the records of `rhs`, added to all that are counted, would be more than 2^64 - 1 in
    /// a queue. Both tables and the counts are unchanged then. After `Memory` both tables may have changed;
    /// the counts still agree with this one.
    #[doc(hidden)]
    pub fn join_under(
        &mut self,
        queue: LogQueue,
        rhs: &mut MemTable,
        mark: &Mark,
        stats: &mut GlobalStats,
    ) -> Result<u64>
        requires region { self.old.region_id ≡ rhs.old.region_id }
        requires own { live_of (other queue) rhs.old ≡ 0 }
        requires older { queue ≡ Rewrite → live_of Append self.old ≡ 0 }
        requires counted { IsCounted self.old stats.old }
        ensures ok { IsRunOver queue mark.now rhs.old self.old
            → OnOk result (table_over queue mark.now rhs.old self.old ≡ Some self.new) }
        ensures end { IfOk result (λ end. end ≡ end_at_reach mark.now self.old) }
        ensures fault { IsRunOver queue mark.now rhs.old self.old
            → IfErr result (IsFaultUnder queue stats.old mark.now rhs.old self.old) }
        ensures err { IsRunOver queue mark.now rhs.old self.old →
            IfErr result (λ e. e ≢ Error.Memory →
            (self.new ≡ self.old) × (rhs.new ≡ rhs.old) × (stats.new ≡ stats.old)) }
        ensures emptied { OnOk result (rhs.new ≡ empty_table rhs.old.region_id) }
        ensures few { OnOk result ((q : LogQueue) →
            live_of q self.new ≤ live_of q self.old + live_of q rhs.old) }
        ensures recounted { IsRecounted self.old self.new stats.old stats.new }
        ensures regions { (self.new.region_id ≡ self.old.region_id) ×
            (rhs.new.region_id ≡ rhs.old.region_id) }
    {
        let end = self.end_at_reach(mark);
        if self.is_blank() {
            stats.add_table(rhs)?;
            mem::swap(self, rhs);
            return Ok(end);
        }
        if !stats.has_room(rhs) {
            return Err(Error::Full);
        }
        self.check_newer_mark(queue, mark, end)?;
        self.drop_by_mark(mark.leaves_hole_after(end), mark, stats);
        self.merge_by_rule(queue, rhs, queue, stats)?;
        self.take_atomic_group(rhs);
        Ok(end)
    }

    /// Puts `rhs`, the table of the same region that the append queue gives, over this one, which the rewrite
    /// queue gives, as the region mark `mark` of the append queue's steps says. Counts the records of `rhs`,
    /// which aren't counted yet, and leaves it empty.
    ///
    /// `mark` and `rhs` must stand for the same steps, as those of a context do; else nothing is promised of
    /// the entries.
    ///
    /// # Errors
    ///
    /// `Full` if the records of `rhs`, added to all that are counted, would be more than 2^64 - 1 in a queue.
    /// Both tables and the counts are unchanged then. After `Memory` both tables may have changed; the counts
    /// still agree with this one.
    #[doc(hidden)]
    pub fn overlay(
        &mut self,
        rhs: &mut MemTable,
        mark: &Mark,
        stats: &mut GlobalStats,
    ) -> Result<()>
        requires region { self.old.region_id ≡ rhs.old.region_id }
        requires appended { live_of Rewrite rhs.old ≡ 0 }
        requires counted { IsCounted self.old stats.old }
        ensures ok { IsRun (overlay_under mark.now rhs.old self.old).entries
            → OnOk result (self.new ≡ overlay_under mark.now rhs.old self.old) }
        ensures emptied { OnOk result (rhs.new ≡ empty_table rhs.old.region_id) }
        ensures fault { IfErr result (IsOverlayFault stats.old rhs.old) }
        ensures err { IfErr result (λ e. e ≢ Error.Memory →
            (self.new ≡ self.old) × (rhs.new ≡ rhs.old) × (stats.new ≡ stats.old)) }
        ensures few { OnOk result ((q : LogQueue) →
            live_of q self.new ≤ live_of q self.old + live_of q rhs.old) }
        ensures recounted { IsRecounted self.old self.new stats.old stats.new }
        ensures regions { (self.new.region_id ≡ self.old.region_id) ×
            (rhs.new.region_id ≡ rhs.old.region_id) }
    {
        if !stats.has_room(rhs) {
            return Err(Error::Full);
        }
        self.drop_by_mark(self.fails_to_reach(rhs, mark), mark, stats);
        self.merge_by_rule(LogQueue::Rewrite, rhs, LogQueue::Append, stats)?;
        self.take_appended_group(rhs, mark);
        Ok(())
    }

    /// Tests whether the table has no entry, no key and no atomic group, as a new one. A join then takes the
    /// newer table as it is.
    fn is_blank(&self) -> bool
        ensures { MatchBool result (self.now ≡ empty_table self.now.region_id) (Unit {0}) }
    {
        match (self.entries.end(), self.atomic_group) {
            (0, None) => self.keys.is_empty(),
            _ => false,
        }
    }

    /// Tests whether all entries of this rewritten table are dropped because they don't reach those of the
    /// appended table `rhs`: the entries of `rhs` don't begin at the mark's cut, or those of this table end
    /// below it. Returns false if there is no cut, or `rhs` has no entries.
    fn fails_to_reach(&self, rhs: &MemTable, mark: &Mark) -> bool
        ensures { result ≡ is_unjoined mark.now.cut (end_of self.now.entries) rhs.now.entries }
    {
        match (mark.cut(), rhs.entries.first_index()) {
            (Some(cut), Some(first)) => first != cut || self.entries.end() < cut,
            (_, _) => false,
        }
    }

    /// Moves the atomic group of `rhs`, if it has one, into this table, in place of its own.
    pub(super) fn take_atomic_group(&mut self, rhs: &mut MemTable)
        ensures atomic_group { self.new ≡ record self.old {
          atomic_group = newer_atomic_group rhs.old.atomic_group self.old.atomic_group;
        } }
        ensures emptied { rhs.new ≡ record rhs.old { atomic_group = None } }
    {
        if let Some(atomic_group) = rhs.atomic_group.take() {
            self.atomic_group = Some(atomic_group);
        }
    }

    /// Takes the atomic group of `rhs`, an appended table, away. If `mark` says that the region was cleaned,
    /// it becomes this table's, even if there is none; else it is dropped.
    fn take_appended_group(&mut self, rhs: &mut MemTable, mark: &Mark)
        ensures atomic_group { self.new ≡ record self.old {
          atomic_group = if mark.now.cleaned then rhs.old.atomic_group else self.old.atomic_group;
        } }
        ensures emptied { rhs.new ≡ record rhs.old { atomic_group = None } }
    {
        let atomic_group = rhs.atomic_group.take();
        if mark.is_cleaned() {
            self.atomic_group = atomic_group;
        }
    }

    /// Returns the index after that of the last entry, or 0 if there are no entries.
    pub fn end(&self) -> u64
        ensures { result ≡ end_of self.now.entries }
    {
        self.entries.end()
    }

    /// Returns the index of the first entry, and the index after that of the last one. Both are 0 if there
    /// are no entries.
    #[doc(hidden)]
    pub fn ends(&self) -> (u64, u64)
        ensures { result ≡ (start_of self.now.entries, end_of self.now.entries) }
    {
        (self.first_index().unwrap_or(0), self.end())
    }

    /// Checks that the steps of a newer region mark aren't refused over these entries. `end` is the end of
    /// those that its first run meets ([`MemTable::end_at_reach`]). In the rewrite queue no step is refused.
    ///
    /// # Errors
    ///
    /// `Corruption`, with a text that names the region, if a run leaves a hole after these entries; `Memory`
    /// if there is none for that text.
    #[doc(hidden)]
    pub fn check_newer_mark(&self, queue: LogQueue, mark: &Mark, end: u64) -> Result<()>
        requires { end ≡ end_at_reach mark.now self.now }
        ensures ok { OnOk result (is_refused_over queue mark.now self.now.entries ≡ false) }
        ensures fault { IfErr result (IsMarkFault
            (is_refused_over queue mark.now self.now.entries)) }
    {
        match queue {
            LogQueue::Append => {
                self.check_first_run(mark, end)?;
                self.check_barred_indexes(mark)
            }
            LogQueue::Rewrite => Ok(()),
        }
    }

    /// Checks that the first run of a newer region mark leaves no hole after these entries. `end` is the end
    /// of those that it meets ([`MemTable::end_at_reach`]).
    ///
    /// # Errors
    ///
    /// `Corruption` if it leaves one; `Memory` if there is none for its text.
    fn check_first_run(&self, mark: &Mark, end: u64) -> Result<()>
        requires { end ≡ end_at_reach mark.now self.now }
        ensures ok { OnOk result (is_missed mark.now self.now.entries ≡ false) }
        ensures fault { IfErr result (IsMarkFault (is_missed mark.now self.now.entries)) }
        ensures text { IfErr result (λ e. (start : ℕ) × (mark.now.reach ≡ Some start)
            × IsCorruption (hole_text self.now.region_id start (end_at_reach mark.now self.now)) e) }
    {
        let Some(start) = mark.reach() else {
            return Ok(());
        };
        if !mark.leaves_hole_after(end) {
            return Ok(());
        }
        Err(hole_error(self.entries.allocator(), self.region_id, start, end))
    }

    /// Checks that no entry has an index that a newer region mark bars ([`Mark::barred_indexes`]).
    ///
    /// # Errors
    ///
    /// `Corruption` if one has, since a run of the mark's steps then leaves a hole; `Memory` if there is none
    /// for its text.
    fn check_barred_indexes(&self, mark: &Mark) -> Result<()>
        ensures ok { OnOk result (is_barred mark.now.barred self.now.entries ≡ false) }
        ensures fault { IfErr result (IsMarkFault
            (is_barred mark.now.barred self.now.entries)) }
        ensures text { IfErr result (λ e. (from below : ℕ) × (mark.now.barred ≡ Some (from, below))
            × IsCorruption (hole_text_above self.now.region_id below
            (end_of (entries_within from (Some below) self.now.entries))) e) }
    {
        let Some((from, below)) = mark.barred_indexes() else {
            return Ok(());
        };
        let end = self.entries.end_within(from, Some(below));
        if end == 0 {
            return Ok(());
        }
        Err(hole_error_above(self.entries.allocator(), self.region_id, below, end))
    }

    /// Drops what the steps of a newer region mark take away, and subtracts it from the live counts: after a
    /// clean everything; else the deleted keys, and the entries below the mark's floor or at or above its
    /// cut, or all entries if `gone`.
    fn drop_by_mark(&mut self, gone: bool, mark: &Mark, stats: &mut GlobalStats)
        requires counted { IsCounted self.old stats.old }
        ensures left { self.new ≡ left_by gone mark.now self.old }
        ensures fewer { (q : LogQueue) → live_of q self.new ≤ live_of q self.old }
        ensures recounted { IsRecounted self.old self.new stats.old stats.new }
        ensures region { self.new.region_id ≡ self.old.region_id }
    {
        if mark.is_cleaned() {
            self.entries.truncate_from(0, stats);
            self.drop_all_keys(stats);
            self.atomic_group = None;
            return;
        }
        self.drop_entries_by_mark(gone, mark, stats);
        self.drop_deleted_keys(mark.deleted_keys(), stats);
    }

    /// Drops the entries below the mark's floor or at or above its cut, or all of them if `gone`, and
    /// subtracts them from the live counts.
    fn drop_entries_by_mark(&mut self, gone: bool, mark: &Mark, stats: &mut GlobalStats)
        requires counted { IsCounted self.old stats.old }
        ensures left { self.new ≡ record self.old {
          entries = (if gone then []
              else entries_within mark.now.floor mark.now.cut self.old.entries);
        } }
        ensures recounted { IsRecounted self.old self.new stats.old stats.new }
    {
        if gone {
            self.entries.truncate_from(0, stats);
            return;
        }
        self.entries.keep_within(mark.floor(), mark.cut(), stats);
    }

    /// Drops all key values, and subtracts them from the live counts.
    fn drop_all_keys(&mut self, stats: &mut GlobalStats)
        requires counted { IsCounted self.old stats.old }
        ensures dropped { self.new ≡ record self.old { keys = finite.empty } }
        ensures recounted { IsRecounted self.old self.new stats.old stats.new }
    {
        stats.delete(LogQueue::Append, self.keys.count_in(LogQueue::Append));
        stats.delete(LogQueue::Rewrite, self.keys.count_in(LogQueue::Rewrite));
        self.keys.clear();
    }

    /// Removes the keys in `deleted` with their values, and subtracts them from the live counts.
    fn drop_deleted_keys(&mut self, deleted: &DeletedKeys, stats: &mut GlobalStats)
        requires counted { IsCounted self.old stats.old }
        ensures dropped { self.new ≡ record self.old { keys = without deleted.now self.old.keys } }
        ensures fewer { (q : LogQueue) → pair_count q self.new.keys ≤ pair_count q self.old.keys }
        ensures recounted { IsRecounted self.old self.new stats.old stats.new }
    {
        let appended = self.keys.count_in(LogQueue::Append);
        let rewritten = self.keys.count_in(LogQueue::Rewrite);
        deleted.delete_from(&mut self.keys);
        stats.delete(
            LogQueue::Append,
            appended - self.keys.count_in(LogQueue::Append),
        );
        stats.delete(
            LogQueue::Rewrite,
            rewritten - self.keys.count_in(LogQueue::Rewrite),
        );
    }
}
