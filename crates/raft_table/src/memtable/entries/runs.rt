//! How runs are put after a table's entries, and counted.

ghost use Rattle.std.specs.Prelude.{◌≡◌, ◌+◌, ◌≤◌, ◌<◌, ◌^◌, [], ◌++◌, length, take, drop, true, OnOk, OnErr, IfErr, MatchBool, MatchOption, Some};
ghost use Rattle.raft_table.specs.Common.{IsCorruption, end_of, AllByRecursion, live, with_added, with_deleted, count_in, of_queue, other, AreTableEntries, IsRunIn, is_placed_in, entry_count, AreCounted, AreRecounted, hole_text, run_shown};
ghost use Rattle.raft_table.specs.Common.{entries_after_append, entries_after_replay, counts_with_run, counts_without, IsTableRunFault, IsStart, IsKeptUnder, LogQueue, Append, Rewrite};

use crate::global_stats::GlobalStats;
use crate::memtable::entries::{Entries, Start};
use crate::memtable::hole::hole_error;
use crate::memtable::run::Run;
use raft_base::{EntryIndex, Error, LogQueue, Result};

impl Entries {
    /// Puts `run`, a new run of the append queue, after the entries below its first index, drops all other
    /// entries, and counts the change. A run without entries changes nothing. `region_id` is for the text of
    /// an error.
    ///
    /// # Errors
    ///
    /// `Corruption` if the run starts below the first entry or leaves a hole after the last one; `Full` if
    /// more than 2^64 - 1 records would be live in the append queue; `Memory`. Entries and counts are
    /// unchanged then.
    pub fn append(
        &mut self,
        region_id: u64,
        run: Vec<EntryIndex>,
        stats: &mut GlobalStats,
    ) -> Result<()>
        requires run { IsRunIn Append run.items }
        requires counted { AreCounted self.old stats.old }
        ensures ok { OnOk result (entries_after_append self.old run.items ≡ Some self.new) }
        ensures fault { IfErr result (IsTableRunFault Append stats.old self.old
            (entries_after_append self.old run.items)) }
        ensures err { OnErr result ((self.new ≡ self.old) × (stats.new ≡ stats.old)) }
        ensures counts { OnOk result (stats.new
            ≡ counts_with_run Append self.old run.items stats.old) }
        ensures recounted { AreRecounted self.old self.new stats.old stats.new }
    {
        let Some(first) = run.first() else {
            return Ok(());
        };
        let entries = Run::Entries(&run);
        match self.classify_start(first.index) {
            Start::Joins(keep) => self.put_and_count_run(keep, &entries, LogQueue::Append, stats),
            Start::InFront => Err(Error::corruption(
                self.allocator(),
                "a run starts below the first entry",
            )),
            Start::BehindHole => Err(self.hole_error(region_id, first.index)),
        }
    }

    /// Moves the entries of `rhs`, which are all in `queue` and not counted yet, after the entries below
    /// their first index, drops all others, and counts the change. Leaves `rhs` empty. `rule` is the queue
    /// by whose start rule old entries stay ([`Entries::count_kept_by_rule`]); `region_id` is for the text
    /// of an error.
    ///
    /// # Errors
    ///
    /// `Corruption` if the new entries leave a hole and `rule` is the append queue; `Full` if more than 2^64
    /// - 1 records would be live in `queue`; `Memory`. Both lists of entries and the counts are unchanged
    /// then.
    pub fn absorb(
        &mut self,
        region_id: u64,
        rule: LogQueue,
        rhs: &mut Entries,
        queue: LogQueue,
        stats: &mut GlobalStats,
    ) -> Result<()>
        requires alone { entry_count (other queue) rhs.old ≡ 0 }
        requires rewritten { queue ≡ Rewrite → entry_count Append self.old ≡ 0 }
        requires counted { AreCounted self.old stats.old }
        ensures ok { OnOk result (entries_after_replay rule self.old rhs.old ≡ Some self.new) }
        ensures emptied { OnOk result (rhs.new ≡ []) }
        ensures fault { IfErr result (IsTableRunFault queue stats.old self.old
            (entries_after_replay rule self.old rhs.old)) }
        ensures err { OnErr result ((self.new ≡ self.old) × (rhs.new ≡ rhs.old) ×
            (stats.new ≡ stats.old)) }
        ensures counts { OnOk result (stats.new
            ≡ counts_with_run queue self.old rhs.old stats.old) }
        ensures recounted { AreRecounted self.old self.new stats.old stats.new }
    {
        rhs.holds_one_run();
        let Some(first) = rhs.first_index() else {
            return Ok(());
        };
        let Some(keep) = self.count_kept_by_rule(rule, first) else {
            return Err(self.hole_error(region_id, first));
        };
        let gone = self.count_after(keep);
        let added = rhs.len();
        if !can_exchange_counts(stats, gone, queue, added) {
            return Err(Error::Full);
        }
        self.move_run_after(keep, rhs)?;
        exchange_counts(stats, gone, queue, added);
        Ok(())
    }

    /// Puts `run`, which was read from `queue`, after the entries below its first index, drops all other
    /// entries, and counts the change. If the run starts below the first entry or, in the rewrite queue,
    /// leaves a hole, no old entry stays. A run without entries changes nothing. `region_id` is for the text
    /// of an error.
    ///
    /// # Errors
    ///
    /// `Corruption` if the run leaves a hole in the append queue; `Full` if more than 2^64 - 1 records would
    /// be live in `queue`; `Memory`. Entries and counts are unchanged then.
    pub fn replay_run(
        &mut self,
        region_id: u64,
        run: &[EntryIndex],
        queue: LogQueue,
        stats: &mut GlobalStats,
    ) -> Result<()>
        requires run { IsRunIn queue run.now }
        requires rewritten { queue ≡ Rewrite → entry_count Append self.old ≡ 0 }
        requires counted { AreCounted self.old stats.old }
        ensures ok { OnOk result (entries_after_replay queue self.old run.now ≡ Some self.new) }
        ensures fault { IfErr result (IsTableRunFault queue stats.old self.old
            (entries_after_replay queue self.old run.now)) }
        ensures err { OnErr result ((self.new ≡ self.old) × (stats.new ≡ stats.old)) }
        ensures counts { OnOk result (stats.new
            ≡ counts_with_run queue self.old run.now stats.old) }
        ensures recounted { AreRecounted self.old self.new stats.old stats.new }
    {
        let Some(first) = run.first() else {
            return Ok(());
        };
        let Some(keep) = self.count_kept_by_rule(queue, first.index) else {
            return Err(self.hole_error(region_id, first.index));
        };
        self.put_and_count_run(keep, &Run::Entries(run), queue, stats)
    }

    /// Returns the `Corruption` for a run with the first index `start` that leaves a hole after these
    /// entries. Returns `Memory` if there is none for its text.
    fn hole_error(&self, region_id: u64, start: u64) -> Error
        ensures { IsCorruption (hole_text region_id start (end_of self.now)) result }
    {
        hole_error(self.allocator(), region_id, start, self.end())
    }

    /// Returns how many of the entries stay when a run with the first index `index` is put, by the start rule
    /// of the queue `rule`: those below `index`, or none if the run starts below the first entry or, in the
    /// rewrite queue, leaves a hole after the last one. Returns `None` if it leaves a hole in the append
    /// queue, which refuses that.
    pub fn count_kept_by_rule(&self, rule: LogQueue, index: u64) -> Option<usize>
        ensures kept { MatchOption result (IsStart self.now index Start.BehindHole ×
            (rule ≡ Append)) (IsKeptUnder rule self.now index) }
        ensures table_entries { AreTableEntries self.now }
    {
        match self.classify_start(index) {
            Start::Joins(keep) => Some(keep),
            Start::InFront => Some(0),
            Start::BehindHole => match rule {
                LogQueue::Append => None,
                LogQueue::Rewrite => Some(0),
            },
        }
    }

    /// Keeps the first `keep` entries, puts `run`, which is in `queue`, after them in place of the others,
    /// and counts the change.
    ///
    /// # Errors
    ///
    /// `Full` if more than 2^64 - 1 records would be live in `queue`; `Memory`. Entries and counts are
    /// unchanged then.
    #[inline(always)]
    pub fn put_and_count_run(
        &mut self,
        keep: usize,
        run: &Run<'_>,
        queue: LogQueue,
        stats: &mut GlobalStats,
    ) -> Result<()>
        requires keep { keep ≤ length self.old }
        requires filled { 0 < length (run_shown run.now) }
        requires table_entries { AreTableEntries (take keep self.old ++ run_shown run.now) }
        requires queue { AllByRecursion (λ e. is_placed_in queue e ≡ true) (run_shown run.now) }
        requires counted { AreCounted self.old stats.old }
        ensures ok { OnOk result (self.new ≡ take keep self.old ++ run_shown run.now) }
        ensures err { OnErr result ((self.new ≡ self.old) × (stats.new ≡ stats.old)) }
        ensures counts { OnOk result (stats.new ≡ with_added queue (length (run_shown run.now))
            (counts_without (drop keep self.old) stats.old)) }
        ensures recounted { AreRecounted self.old self.new stats.old stats.new }
        ensures fault { IfErr result (IsTableRunFault queue stats.old self.old
            (Some (take keep self.old ++ run_shown run.now))) }
    {
        let gone = self.count_after(keep);
        let added = run.len();
        if !can_exchange_counts(stats, gone, queue, added) {
            return Err(Error::Full);
        }
        self.put_run_after(keep, run)?;
        exchange_counts(stats, gone, queue, added);
        Ok(())
    }

    /// Returns how many of the entries after the first `keep` are in the rewrite queue, and how many are in
    /// the append queue.
    pub(super) fn count_after(&self, keep: usize) -> (usize, usize)
        requires { keep ≤ length self.now }
        ensures rewritten { result.0 ≡ entry_count Rewrite (drop keep self.now) }
        ensures appended { result.1 ≡ entry_count Append (drop keep self.now) }
        ensures table_entries { AreTableEntries self.now }
    {
        let rewritten = self.rewritten - self.rewritten.min(keep);
        (rewritten, self.len - keep - rewritten)
    }

    /// Returns where a run with the first index `index` begins, compared with these entries. If there are
    /// none, it joins them.
    fn classify_start(&self, index: u64) -> Start
        ensures meets { IsStart self.now index result }
        ensures table_entries { AreTableEntries self.now }
    {
        if self.len == 0 {
            return Start::Joins(0);
        }
        if index < self.first {
            return Start::InFront;
        }
        let below = index - self.first;
        if below > self.len as u64 {
            return Start::BehindHole;
        }
        Start::Joins(below as usize)
    }
}

/// Tests whether `added` more records of `queue` can be counted as live, once `gone` records are no longer
/// live: no more than 2^64 - 1 may be live in a queue. `gone` is a number of rewritten and a number of
/// appended records.
fn can_exchange_counts(
    stats: &GlobalStats,
    gone: (usize, usize),
    queue: LogQueue,
    added: usize,
) -> bool
    requires rewritten { gone.0 ≤ live Rewrite stats.now }
    requires appended { gone.1 ≤ live Append stats.now }
    ensures { MatchBool result (live queue stats.now + added < 2 ^ 64 + of_queue queue gone.1 gone.0)
        (2 ^ 64 + of_queue queue gone.1 gone.0 ≤ live queue stats.now + added) }
{
    let gone = match queue {
        LogQueue::Append => gone.1,
        LogQueue::Rewrite => gone.0,
    };
    added <= usize::MAX - (stats.live_entries(queue) - gone)
}

/// Counts `gone` records as no longer live, and then `added` records of `queue` as live. `gone` is a number
/// of rewritten and a number of appended records. There must be room for the added ones
/// ([`can_exchange_counts`]).
fn exchange_counts(stats: &mut GlobalStats, gone: (usize, usize), queue: LogQueue, added: usize)
    requires rewritten { gone.0 ≤ live Rewrite stats.old }
    requires appended { gone.1 ≤ live Append stats.old }
    requires room { live queue stats.old + added < 2 ^ 64 + of_queue queue gone.1 gone.0 }
    ensures live { (q : LogQueue) → live q stats.new + of_queue q gone.1 gone.0
        ≡ live q stats.old + count_in q queue added }
    ensures counts { stats.new ≡ with_added queue added
        (with_deleted Rewrite gone.0 (with_deleted Append gone.1 stats.old)) }
{
    stats.delete(LogQueue::Append, gone.1);
    stats.delete(LogQueue::Rewrite, gone.0);
    stats.add_fitting(queue, added);
}
