//! Rewritten tables of one slot put under those of the append queue, each as the region mark of the append
//! queue says (`Mark`: what the queue's steps do to any older table of a region).

ghost use Rattle.std.specs.Prelude.{◌≡◌, IfSome, Some, None};
ghost use Rattle.raft_accessor.specs.Common.{Rewrite, live_of, IsCounted, IsRecounted, table_in, live_in, IsPutOver, IsTableOverlaid};

use crate::boxed_table::BoxedTable;
use crate::region_tables::RegionTables;
use raft_base::Result;
use raft_table::{GlobalStats, Mark, MemTable};

impl RegionTables {
    /// Puts the table that the append queue gives the region `id`, or its absence, over the rewritten table
    /// that stands here. `mark`, the region mark of the append queue, says what of the rewritten table stays.
    ///
    /// # Errors
    ///
    /// Those of [`MemTable::overlay`]; `Memory`. `appended` is dropped then, and the counts still agree with
    /// the tables.
    pub(crate) fn overlay_table(
        &mut self,
        id: u64,
        appended: Option<BoxedTable>,
        mark: &Mark,
        stats: &mut GlobalStats,
    ) -> Result<()>
        requires region { IfSome appended (λ t. t.region_id ≡ id) }
        requires own { live_in Rewrite appended ≡ 0 }
        requires counted { IsCounted (table_in self.old id) stats.old }
        ensures { IsTableOverlaid mark.now appended self.old id stats.old result self.new
            stats.new }
    {
        match appended {
            Some(appended) => self.overlay_appended_table(id, appended.into_table(), mark, stats),
            None => self.apply_appended_mark(id, mark, stats),
        }
    }

    /// Puts `appended`, the table that the append queue gives the region `id`, over the rewritten one, as
    /// `mark` says. If there is no rewritten one, an empty one is made first.
    ///
    /// # Errors
    ///
    /// Those of [`MemTable::overlay`]; `Memory`. `appended` is dropped then, and the counts still agree with
    /// the tables.
    fn overlay_appended_table(
        &mut self,
        id: u64,
        appended: MemTable,
        mark: &Mark,
        stats: &mut GlobalStats,
    ) -> Result<()>
        requires region { appended.region_id ≡ id }
        requires own { live_of Rewrite appended ≡ 0 }
        requires counted { IsCounted (table_in self.old id) stats.old }
        ensures { IsTableOverlaid mark.now (Some appended) self.old id stats.old result self.new
            stats.new }
    {
        self.update_and_keep(
            id,
            stats,
            move |table: &mut MemTable, stats: &mut GlobalStats| -> Result<()>
                requires region { table.old.region_id ≡ appended.region_id }
                requires own { live_of Rewrite appended ≡ 0 }
                requires counted { IsCounted table.old stats.old }
                ensures put { IsPutOver mark.entry.now appended stats.old result table.old
                    table.new }
                ensures region { table.new.region_id ≡ table.old.region_id }
                ensures recounted { IsRecounted table.old table.new stats.old stats.new }
            {
                let mut appended = appended;
                table.overlay(&mut appended, mark, stats)
            },
        )
    }

    /// Drops from the rewritten table of the region `id` what the append queue takes away by `mark`; that
    /// queue gives the region no table. If the mark cleans the region, the whole table goes.
    ///
    /// # Errors
    ///
    /// Those of [`MemTable::overlay`]; `Memory`. The counts still agree with the table then.
    fn apply_appended_mark(&mut self, id: u64, mark: &Mark, stats: &mut GlobalStats) -> Result<()>
        requires counted { IsCounted (table_in self.old id) stats.old }
        ensures { IsTableOverlaid mark.now None self.old id stats.old result self.new stats.new }
    {
        if mark.is_cleaned() {
            self.remove(id, stats);
            return Ok(());
        }
        if self.get(id).is_none() {
            return Ok(());
        }
        self.overlay_appended_table(id, MemTable::new(self.alloc, id), mark, stats)
    }
}
