//! Rewriting: how entries get new places in the rewrite queue.

ghost use Rattle.std.specs.Prelude.{◌≡◌, ◌⊎◌, ◌+◌, ◌<◌, ◌≤◌, ◌^◌, ◌++◌, length, take, drop, MatchOption, OnOk, OnErr, IfErr, false};
ghost use Rattle.raft_table.specs.Common.{prefix_len, live, RisesFrom, AreTableEntries, IsRunIn, start_of, placed_in, entry_count, AreCounted, AreRecounted, IsOverlap, AreDisjoint, may_move, is_misplaced, newly_rewritten, with_rewritten};
ghost use Rattle.raft_table.specs.Common.{entries_after_rewrite, counts_after_rewrite, IsRewriteFault, MovesPlacesAlone, LogQueue, Append, Rewrite};

use crate::global_stats::GlobalStats;
use crate::memtable::entries::{Entries, Overlap};
use raft_base::{AllocResult, EntryIndex, Error, FileSeq, LogQueue, Result};

impl Entries {
    /// Moves entries to the places of `run`, a run of the rewrite queue: from the first index that both
    /// share, up to the first entry that may not move. With a `gate`, an entry may move if the number of its
    /// file is at most `gate`; without one, if it is rewritten already. The whole run is counted as written
    /// to the rewrite queue. Entries of the run to which nothing moved, and the old places of those that
    /// moved, are counted as no longer live. A run without entries changes nothing.
    ///
    /// # Errors
    ///
    /// `Corruption` if there are appended entries below the first shared index or, with a `gate`, the entry
    /// at that index is rewritten already; `Full` if the live records of the rewrite queue and the run
    /// together would be more than 2^64 - 1; `Memory`. Entries and counts are unchanged then.
    pub fn rewrite(
        &mut self,
        run: &[EntryIndex],
        gate: Option<FileSeq>,
        stats: &mut GlobalStats,
    ) -> Result<()>
        requires run { IsRunIn Rewrite run.now }
        requires counted { AreCounted self.old stats.old }
        ensures ok { OnOk result (entries_after_rewrite gate run.now self.old ≡ Some self.new) }
        ensures places_alone { OnOk result (MovesPlacesAlone run.now self.old self.new) }
        ensures counts { OnOk result (stats.new
            ≡ counts_after_rewrite gate run.now self.old stats.old) }
        ensures fault { IfErr result (IsRewriteFault (length run.now) stats.old
            (entries_after_rewrite gate run.now self.old)) }
        ensures err { OnErr result ((self.new ≡ self.old) × (stats.new ≡ stats.old)) }
        ensures recounted { AreRecounted self.old self.new stats.old stats.new }
    {
        let Some(head) = run.first() else {
            return Ok(());
        };
        let Some(overlap) = self.find_overlap(head.index, run.len()) else {
            return stats.add_unmoved(run.len());
        };
        if self.refuses_rewrite_at(overlap.at, gate) {
            return Err(Error::corruption(
                self.allocator(),
                "a rewriting doesn't start where the rewritten entries end",
            ));
        }
        let places = &run[overlap.skipped..overlap.skipped + overlap.count];
        self.move_to_places(overlap.at, places, gate, run.len(), stats)
    }

    /// Returns which indexes a run of `len` entries with the first index `start` shares with these entries,
    /// or `None` if it shares none.
    fn find_overlap(&self, start: u64, len: usize) -> Option<Overlap>
        requires { start + len < 2 ^ 64 }
        ensures meets { MatchOption result
            (AreDisjoint (start_of self.now) (length self.now) start len)
            (IsOverlap (start_of self.now) (length self.now) start len) }
        ensures table_entries { AreTableEntries self.now }
    {
        if self.len == 0 {
            return None;
        }
        let first = self.first;
        let end = first + self.len as u64;
        let from = first.max(start);
        let to = end.min(start + len as u64);
        if to <= from {
            return None;
        }
        Some(Overlap {
            at: (from - first) as usize,
            skipped: (from - start) as usize,
            count: (to - from) as usize,
        })
    }

    /// Tests whether a rewriting may not begin at position `at` of the entries: if appended entries come
    /// before that position or, with a `gate`, the entry there is rewritten already.
    fn refuses_rewrite_at(&self, at: usize, gate: Option<FileSeq>) -> bool
        ensures { result ≡ is_misplaced gate at (entry_count Rewrite self.now) }
    {
        self.rewritten < at || gate.is_some() && at < self.rewritten
    }

    /// Moves the entries from position `at` on to the places of `places`, one each, up to the first entry
    /// that may not move with this `gate`. Counts `written` records of the rewrite queue, the length of the
    /// whole run that was written. Those to which nothing moved, and the old places of what moved, are
    /// counted as no longer live.
    ///
    /// # Errors
    ///
    /// `Full` if the live records of the rewrite queue and `written` together would be more than 2^64 - 1;
    /// `Memory`. Entries and counts are unchanged then.
    fn move_to_places(
        &mut self,
        at: usize,
        places: &[EntryIndex],
        gate: Option<FileSeq>,
        written: usize,
        stats: &mut GlobalStats,
    ) -> Result<()>
        requires within { at + length places.now ≤ length self.old }
        requires rising { RisesFrom (start_of self.old + at) places.now }
        requires placed { placed_in Rewrite places.now ≡ places.now }
        requires well_placed { is_misplaced gate at (entry_count Rewrite self.old) ≡ false }
        requires written { length places.now ≤ written }
        requires counted { AreCounted self.old stats.old }
        ensures ok { let m = prefix_len (may_move gate)
            (drop at (take (at + length places.now) self.old)) in
            OnOk result ((self.new
            ≡ take at self.old ++ take m places.now ++ drop (at + m) self.old)
            × (stats.new ≡ with_rewritten gate written m stats.old)) }
        ensures fault { IfErr result (λ e. (e ≡ Error.Memory)
            ⊎ ((e ≡ Error.Full) × (2 ^ 64 ≤ live Rewrite stats.old + written))) }
        ensures err { OnErr result ((self.new ≡ self.old) × (stats.new ≡ stats.old)) }
        ensures recounted { AreRecounted self.old self.new stats.old stats.new }
    {
        if !stats.can_add(LogQueue::Rewrite, written) {
            return Err(Error::Full);
        }
        self.holds_one_run();
        let moved = self.count_movable(at, at + places.len(), gate);
        self.set_places(at, &places[..moved])?;
        count_rewriting(gate, written, moved, stats);
        Ok(())
    }

    /// Replaces the entries from position `at` on by those of `places`, as many as there are.
    ///
    /// # Errors
    ///
    /// `AllocError` if there is no memory for them. The entries are unchanged then.
    fn set_places(&mut self, at: usize, places: &[EntryIndex]) -> AllocResult<()>
        requires within { at + length places.now ≤ length self.old }
        requires table_entries { AreTableEntries
            (take at self.old ++ places.now ++ drop (at + length places.now) self.old) }
        ensures ok { OnOk result (self.new
            ≡ take at self.old ++ places.now ++ drop (at + length places.now) self.old) }
        ensures err { OnErr result (self.new ≡ self.old) }
    {
        if places.is_empty() {
            return Ok(());
        }
        let mut run = Entries::from_run(*self.blocks.allocator(), places)?;
        if at + places.len() < self.len {
            return self.replace_entries_at(at, run);
        }
        self.move_run_after(at, &mut run)
    }
}

/// Counts a rewriting: `written` records of the rewrite queue, to `moved` of which an entry moved. With a
/// `gate` these entries come from the append queue, without one from older places in the rewrite queue. Old
/// places, and records to which nothing moved, are counted as no longer live.
fn count_rewriting(gate: Option<FileSeq>, written: usize, moved: usize, stats: &mut GlobalStats)
    requires room { live Rewrite stats.old + written < 2 ^ 64 }
    requires moved { moved ≤ written }
    requires appended { newly_rewritten gate moved ≤ live Append stats.old }
    ensures counts { stats.new ≡ with_rewritten gate written moved stats.old }
    ensures appended { live Append stats.new + newly_rewritten gate moved ≡ live Append stats.old }
    ensures rewritten { live Rewrite stats.new
        ≡ live Rewrite stats.old + newly_rewritten gate moved }
{
    stats.add_fitting(LogQueue::Rewrite, written);
    match gate {
        Some(_) => {
            stats.delete(LogQueue::Append, moved);
            stats.delete(LogQueue::Rewrite, written - moved);
        }
        None => stats.delete(LogQueue::Rewrite, written),
    }
}
