//! Tables put under the ids of their regions, and taken away.

ghost use Rattle.std.specs.Prelude.{◌≡◌, ◌≤◌, ◌+◌};
ghost use Rattle.raft_accessor.specs.Common.{LogQueue, live, table_of, live_of, with_table_deleted, IsCounted, table_in, IsInserted, IsTakenOut};

use crate::boxed_table::{BoxedTable, unbox_table};
use crate::region_tables::RegionTables;
use raft_base::Result;
use raft_table::{GlobalStats, MemTable};

impl RegionTables {
    /// Puts `table` under its region's id `id`, and counts its records in `stats`. Returns the table that it
    /// replaces, whose records are no longer counted, or `None` if there was none.
    ///
    /// # Errors
    ///
    /// `Full` if a queue would have more than 2^64 - 1 live records, those of the replaced table counted too;
    /// `Memory`. Tables and counts are unchanged then, and `table` is dropped.
    pub fn insert(
        &mut self,
        id: u64,
        table: MemTable,
        stats: &mut GlobalStats,
    ) -> Result<Option<MemTable>>
        requires region { table.region_id ≡ id }
        requires counted { IsCounted (table_in self.old id) stats.old }
        ensures { IsInserted id table self.old stats.old result self.new stats.new }
    {
        let table = BoxedTable::new(self.alloc, table)?;
        Ok(unbox_table(self.insert_boxed(id, table, stats)?))
    }

    /// Puts `table`, which is in a box, under its region's id `id`, and counts its records in `stats`.
    /// Returns the table that it replaces, whose records are no longer counted, or `None` if there was none.
    ///
    /// # Errors
    ///
    /// `Full` if a queue would have more than 2^64 - 1 live records, those of the replaced table counted too;
    /// `Memory`. Tables and counts are unchanged then, and `table` is dropped.
    pub(crate) fn insert_boxed(
        &mut self,
        id: u64,
        table: BoxedTable,
        stats: &mut GlobalStats,
    ) -> Result<Option<BoxedTable>>
        requires region { table.region_id ≡ id }
        requires counted { IsCounted (table_in self.old id) stats.old }
        ensures { IsInserted id table self.old stats.old result self.new stats.new }
    {
        self.tables.reserve(1)?;
        stats.add_table(table.get())?;
        match self.tables.insert(id, table) {
            Ok(replaced) => {
                subtract_removed_table(id, &replaced, stats);
                Ok(replaced)
            }
            Err(_) => unreachable!(),
        }
    }

    /// Removes the table of the region `id` and returns it, or `None` if there is none. Its records are
    /// subtracted from the live counts `stats`.
    pub fn remove(&mut self, id: u64, stats: &mut GlobalStats) -> Option<MemTable>
        requires { IsCounted (table_in self.old id) stats.old }
        ensures { IsTakenOut id result self.old stats.old self.new stats.new }
    {
        unbox_table(self.remove_boxed(id, stats))
    }

    /// Removes the table of the region `id` and returns it in its box, or `None` if there is none. Its
    /// records are subtracted from the live counts `stats`.
    pub(crate) fn remove_boxed(&mut self, id: u64, stats: &mut GlobalStats) -> Option<BoxedTable>
        requires { IsCounted (table_in self.old id) stats.old }
        ensures { IsTakenOut id result self.old stats.old self.new stats.new }
    {
        let removed = self.tables.remove(&id);
        subtract_removed_table(id, &removed, stats);
        removed
    }
}

/// Subtracts the records of `table`, which was removed from the region `id`, from the live counts `stats`.
/// Does nothing if there was no table.
fn subtract_removed_table(id: u64, table: &Option<BoxedTable>, stats: &mut GlobalStats)
    requires { (q : LogQueue) → live_of q (table_of id table.now) ≤ live q stats.old }
    ensures counts { stats.new ≡ with_table_deleted (table_of id table.now) stats.old }
    ensures live { (q : LogQueue) → live q stats.new + live_of q (table_of id table.now) ≡ live q
        stats.old }
{
    if let Some(table) = table {
        stats.delete_table(table.get());
    }
}
