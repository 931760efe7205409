//! Tables of one slot joined with those of a newer neighbor, which has the batches directly after these in
//! the same queue. A region mark (`Mark`) says what these batches do to any older table of a region.

ghost use Rattle.std.specs.Prelude.{◌≡◌, IfSome, Some, None};
ghost use Rattle.raft_accessor.specs.Common.{LogQueue, Append, Rewrite, other, IsRun, live_of, IsCounted, IsRecounted, start_of, table_in, live_in, IsPut, IsTableJoined};
ghost use Rattle.std.specs.FinMap as finite;

use crate::boxed_table::BoxedTable;
use crate::region_tables::RegionTables;
use raft_base::{AllocResult, LogQueue, Result};
use raft_table::{GlobalStats, Mark, MemTable};

impl RegionTables {
    /// Puts the newer table of the region `id`, or its absence, over the older one that stands here, as the
    /// newer region mark `mark` says. Returns two indexes: that of the first older entry, and the one after
    /// the last older entry that the mark's first run meets. Each is 0 if there is no such entry.
    ///
    /// # Errors
    ///
    /// Those of [`MemTable::join_under`]; `Memory`. `newer` is dropped then, and the counts still agree with
    /// the tables.
    pub(crate) fn join_table(
        &mut self,
        queue: LogQueue,
        id: u64,
        newer: Option<BoxedTable>,
        mark: &Mark,
        stats: &mut GlobalStats,
    ) -> Result<(u64, u64)>
        requires region { IfSome newer (λ t. t.region_id ≡ id) }
        requires own { live_in (other queue) newer ≡ 0 }
        requires older { queue ≡ Rewrite → live_of Append (table_in self.old id) ≡ 0 }
        requires counted { IsCounted (table_in self.old id) stats.old }
        ensures { IsTableJoined queue mark.now newer self.old id stats.old result self.new
            stats.new }
    {
        match newer {
            Some(newer) => self.join_newer_table(queue, id, newer, mark, stats),
            None => self.apply_newer_mark(queue, id, mark, stats),
        }
    }

    /// Returns how many regions of the slot have a table.
    pub fn len(&self) -> usize
        ensures { result ≡ finite.len self.now }
    {
        self.tables.len()
    }

    /// Reserves memory so that the slot can hold `count` tables, with those that it has.
    ///
    /// # Errors
    ///
    /// `AllocError` if there is no memory. The tables are the same in either case.
    pub(crate) fn make_room(&mut self, count: usize) -> AllocResult<()>
        ensures { self.new ≡ self.old }
    {
        self.tables.reserve(count.saturating_sub(self.tables.len()))
    }

    /// Puts `newer` over the older table of the region `id`, as the newer region mark `mark` says, or under
    /// the region's id if it has no older table. Returns the two indexes of [`RegionTables::join_table`].
    ///
    /// # Errors
    ///
    /// Those of [`RegionTables::join_table`]. `newer` is dropped then.
    fn join_newer_table(
        &mut self,
        queue: LogQueue,
        id: u64,
        newer: BoxedTable,
        mark: &Mark,
        stats: &mut GlobalStats,
    ) -> Result<(u64, u64)>
        requires region { newer.region_id ≡ id }
        requires own { live_of (other queue) newer ≡ 0 }
        requires older { queue ≡ Rewrite → live_of Append (table_in self.old id) ≡ 0 }
        requires counted { IsCounted (table_in self.old id) stats.old }
        ensures { IsTableJoined queue mark.now (Some newer) self.old id stats.old result self.new
            stats.new }
    {
        if let Some(table) = self.tables.get_mut(&id) {
            return put_newer_over(&mut table.boxed, queue, newer, mark, stats);
        }
        self.insert_boxed(id, newer, stats)?;
        Ok((0, 0))
    }

    /// Drops from the older table of the region `id` what the newer region mark `mark` takes away, where the
    /// newer neighbor has no table of the region. If the mark cleans the region, the whole table goes.
    /// Returns the two indexes of [`RegionTables::join_table`].
    ///
    /// # Errors
    ///
    /// `Corruption` if, in the append queue, a run among the mark's steps would leave a hole after the older
    /// entries; `Memory`. The counts still agree with the table then.
    fn apply_newer_mark(
        &mut self,
        queue: LogQueue,
        id: u64,
        mark: &Mark,
        stats: &mut GlobalStats,
    ) -> Result<(u64, u64)>
        requires older { queue ≡ Rewrite → live_of Append (table_in self.old id) ≡ 0 }
        requires counted { IsCounted (table_in self.old id) stats.old }
        ensures { IsTableJoined queue mark.now None self.old id stats.old result self.new
            stats.new }
    {
        let Some(table) = self.get(id) else {
            return Ok((0, 0));
        };
        if !mark.is_cleaned() {
            let empty = BoxedTable::empty(self.alloc, id)?;
            return self.join_newer_table(queue, id, empty, mark, stats);
        }
        let start = first_index_or_zero(table);
        let end = table.end_at_reach(mark);
        table.check_newer_mark(queue, mark, end)?;
        self.remove(id, stats);
        Ok((start, end))
    }
}

/// Puts `newer` over the table `older` of the same region, as the newer region mark `mark` says. Returns two
/// indexes: that of the first older entry, and the one after the last older entry that the mark's first run
/// meets. Each is 0 if there is no such entry.
///
/// # Errors
///
/// Those of [`MemTable::join_under`]. `newer` is dropped then.
fn put_newer_over(
    older: &mut MemTable,
    queue: LogQueue,
    mut newer: BoxedTable,
    mark: &Mark,
    stats: &mut GlobalStats,
) -> Result<(u64, u64)>
    requires region { older.old.region_id ≡ newer.region_id }
    requires own { live_of (other queue) newer ≡ 0 }
    requires older { queue ≡ Rewrite → live_of Append older.old ≡ 0 }
    requires counted { IsCounted older.old stats.old }
    ensures put { IsPut queue mark.now newer stats.old result older.old older.new }
    ensures region_id { older.new.region_id ≡ older.old.region_id }
    ensures recounted { IsRecounted older.old older.new stats.old stats.new }
{
    let start = first_index_or_zero(older);
    let end = older.join_under(queue, &mut newer.boxed, mark, stats)?;
    Ok((start, end))
}

/// Returns the index of the first entry of `table`, or 0 if it has none.
fn first_index_or_zero(table: &MemTable) -> u64
    ensures start { result ≡ start_of table.now.entries }
    ensures run { IsRun table.now.entries }
{
    table.holds_one_run();
    table.ends().0
}
