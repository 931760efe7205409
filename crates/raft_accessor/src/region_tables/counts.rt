//! The live records of the tables of one slot, counted apart.

ghost use Rattle.std.specs.Prelude.{◌≡◌, ◌≤◌};
ghost use Rattle.raft_accessor.specs.Common.{LogQueue, live, live_in_all, counts_of, with_all_deleted};

use crate::region_tables::RegionTables;
use raft_base::LogQueue;
use raft_table::GlobalStats;

impl RegionTables {
    /// Subtracts the records of all tables of the slot from the live counts `stats`, and returns counts of
    /// these records alone.
    pub(crate) fn take_counts(&self, stats: &mut GlobalStats) -> GlobalStats
        requires { (q : LogQueue) → live_in_all q self.now ≤ live q stats.old }
        ensures taken { result ≡ counts_of self.now }
        ensures left { stats.new ≡ with_all_deleted self.now stats.old }
    {
        let append = stats.live_entries(LogQueue::Append);
        let rewrite = stats.live_entries(LogQueue::Rewrite);
        self.subtract_all_records(stats);
        new_counts(
            append - stats.live_entries(LogQueue::Append),
            rewrite - stats.live_entries(LogQueue::Rewrite),
        )
    }

    /// Subtracts the records of all tables of the slot from the live counts `stats`.
    fn subtract_all_records(&self, stats: &mut GlobalStats)
        requires { (q : LogQueue) → live_in_all q self.now ≤ live q stats.old }
        ensures { stats.new ≡ with_all_deleted self.now stats.old }
    {
        for table in self.tables.values() {
            stats.delete_table(table.get());
        }
    }
}

/// Returns live counts with `append` records in the append queue and `rewrite` in the rewrite queue.
fn new_counts(append: usize, rewrite: usize) -> GlobalStats
    ensures { result ≡ record { append = append; written = rewrite; deleted = 0 } }
{
    let mut stats = GlobalStats::default();
    let is_refused = stats.add(LogQueue::Append, append).is_err()
        || stats.add(LogQueue::Rewrite, rewrite).is_err();
    if is_refused {
        unreachable!()
    }
    stats
}
