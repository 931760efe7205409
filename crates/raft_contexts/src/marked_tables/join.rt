//! The tables and region marks of all regions joined with those of a newer neighbor, which has the batches
//! directly after these in the same queue.

ghost use Rattle.std.specs.Prelude.{◌≡◌, ◌+◌, ◌≤◌, ◌<◌, ◌++◌, IfErr, IfSome, OnOk, Some};
ghost use Rattle.raft_contexts.specs.Common.{LogQueue, Append, Rewrite, StandForSteps, AreJoined, region_in, with_region, joined_region, IsFaultUnder, IsRunOver, other, table_of, live_of, table_in, live_in, live_in_all, AreCountsOf};
ghost use Rattle.raft_contexts.specs.Common.{implied_mark, implied_marks, regions_in, AreRunsOver, AreMarksJoined, IsSlotFault, IsJoinFault};

use crate::marked_tables::MarkedTables;
use crate::region_marks::{RegionMarks, SlotMarks, SmallMark};
use raft_accessor::{BoxedTable, MemTableAccessor, RegionTables};
use raft_base::{AllocResult, LogQueue, Result};

impl MarkedTables {
    /// Joins the tables, region marks and cleaned regions of `newer`, what was read of the batches that
    /// follow directly in `queue`, to these.
    ///
    /// # Errors
    ///
    /// `Corruption` if entries leave a hole in the append queue; `Full` if both together have more than 2^64
    /// - 1 records; `Memory`. Some of the regions may have been joined then, and the rest of `newer` is
    /// dropped.
    pub(crate) fn join(&mut self, queue: LogQueue, newer: MarkedTables) -> Result<()>
        requires older { live_in_all (other queue) self.old.accessor.tables ≡ 0 }
        requires newer { live_in_all (other queue) newer.accessor.tables ≡ 0 }
        ensures ok { StandForSteps queue (regions_in self.old)
            → StandForSteps queue (regions_in newer)
            → OnOk result
            (AreJoined queue (regions_in self.old) (regions_in newer) (regions_in self.new)) }
        ensures cleaned { OnOk result
            (self.new.accessor.cleaned ≡ self.old.accessor.cleaned ++ newer.accessor.cleaned) }
        ensures fault { StandForSteps queue (regions_in self.old)
            → StandForSteps queue (regions_in newer)
            → IfErr result (IsJoinFault queue (regions_in self.old) (regions_in newer)) }
        ensures other { OnOk result (live_in_all (other queue) self.new.accessor.tables ≡ 0) }
    {
        let MarkedTables {
            mut accessor,
            marks,
        } = newer;
        self.join_marked(queue, marks, &mut accessor)?;
        self.accessor.append_cleaned(&mut accessor)?;
        self.join_unmarked(queue, accessor)
    }

    /// Joins each region whose newer region mark is kept in `marks`: its mark, and its newer table, which is
    /// taken out of `tables`. The tables of the other regions stay there, for
    /// [`join_unmarked`](MarkedTables::join_unmarked).
    ///
    /// # Errors
    ///
    /// Those of [`join`](MarkedTables::join). Some of the regions may have been joined then.
    fn join_marked(
        &mut self,
        queue: LogQueue,
        marks: RegionMarks,
        tables: &mut MemTableAccessor,
    ) -> Result<()>
        requires older { live_in_all (other queue) self.old.accessor.tables ≡ 0 }
        requires newer { live_in_all (other queue) tables.old.tables ≡ 0 }
        ensures { AreMarksJoined queue marks result self.old self.new tables.old tables.new }
    {
        let mut number = 0;
        for slot in marks.into_slots() {
            self.make_room(number, slot.len())?;
            self.join_marked_slot(queue, slot, tables)?;
            number += 1;
        }
        Ok(())
    }

    /// Reserves memory for the tables and the region marks of `count` regions in the slot numbered `slot`,
    /// below 128.
    ///
    /// # Errors
    ///
    /// `AllocError` if there is no memory. Tables and marks are the same in either case.
    fn make_room(&mut self, slot: usize, count: usize) -> AllocResult<()>
        requires { slot < 128 }
        ensures { self.new ≡ self.old }
    {
        self.marks.make_room(slot, count)?;
        self.accessor.make_room(slot, count)
    }

    /// Joins each region of one slot whose newer region mark is kept in `marks`: its mark, and its newer
    /// table, which is taken out of `tables`.
    ///
    /// # Errors
    ///
    /// Those of [`join`](MarkedTables::join). Some of the regions may have been joined then.
    fn join_marked_slot(
        &mut self,
        queue: LogQueue,
        marks: SlotMarks,
        tables: &mut MemTableAccessor,
    ) -> Result<()>
        requires older { live_in_all (other queue) self.old.accessor.tables ≡ 0 }
        requires newer { live_in_all (other queue) tables.old.tables ≡ 0 }
        ensures { AreMarksJoined queue marks result self.old self.new tables.old tables.new }
    {
        for (id, mark) in marks.into_entries() {
            let table = tables.take(id);
            self.join_region(queue, id, table, mark)?;
        }
        Ok(())
    }

    /// Joins what is newer of the region `id`: first its table `newer`, or its absence, over the older table,
    /// as the newer region mark `mark` says, and then `mark` to the older mark.
    ///
    /// # Errors
    ///
    /// Those of [`join`](MarkedTables::join). The table may have been joined then, and the mark not.
    fn join_region(
        &mut self,
        queue: LogQueue,
        id: u64,
        newer: Option<BoxedTable>,
        mark: SmallMark,
    ) -> Result<()>
        requires region { IfSome newer (λ t. t.region_id ≡ id) }
        requires own { live_in (other queue) newer ≡ 0 }
        requires older { queue ≡ Rewrite → live_in_all Append self.old.accessor.tables ≡ 0 }
        ensures ok { IsRunOver queue mark (table_of id newer) (table_in self.old.accessor.tables id)
            → OnOk result (joined_region queue id (region_in (regions_in self.old) id)
            (record { mark = mark; table = newer })
            ≡ Some (region_in (regions_in self.new) id)) }
        ensures others { OnOk result (regions_in self.new
            ≡ with_region (regions_in self.old) id (region_in (regions_in self.new) id)) }
        ensures fault { IsRunOver queue mark (table_of id newer)
            (table_in self.old.accessor.tables id)
            → IfErr result (IsFaultUnder queue self.old.accessor.counts mark (table_of id newer)
            (table_in self.old.accessor.tables id)) }
        ensures exact_counts { AreCountsOf self.old.accessor.tables self.old.accessor.counts }
        ensures few { OnOk result ((q : LogQueue)
            → live_in_all q self.new.accessor.tables
            ≤ live_in_all q self.old.accessor.tables + live_in q newer) }
        ensures cleaned { self.new.accessor.cleaned ≡ self.old.accessor.cleaned }
    {
        self.accessor.counts_are_exact();
        self.marks.keep_implied_mark(id, &self.accessor)?;
        let start = mark.kept_run_start();
        let mark = mark.into_mark();
        let ends = self.accessor.join_table(queue, id, newer, &mark)?;
        if let Some(start) = start {
            return Ok(self.marks.add_run(id, queue, ends.1, start)?);
        }
        Ok(self.marks.join(id, queue, ends.1, mark)?)
    }

    /// Joins `tables`, the newer ones of the regions whose newer region mark isn't kept, each with the mark
    /// that it implies.
    ///
    /// # Errors
    ///
    /// Those of [`join`](MarkedTables::join). Some of the regions may have been joined then.
    fn join_unmarked(&mut self, queue: LogQueue, tables: MemTableAccessor) -> Result<()>
        requires older { live_in_all (other queue) self.old.accessor.tables ≡ 0 }
        requires newer { live_in_all (other queue) tables.tables ≡ 0 }
        ensures ok { AreRunsOver queue (implied_marks tables.tables) tables.tables
            self.old.accessor.tables
            → OnOk result (AreJoined queue (regions_in self.old)
            (record { tables = tables.tables; marks = implied_marks tables.tables })
            (regions_in self.new)) }
        ensures fault { AreRunsOver queue (implied_marks tables.tables) tables.tables
            self.old.accessor.tables
            → IfErr result (IsSlotFault queue (regions_in self.old)
            (record { tables = tables.tables; marks = implied_marks tables.tables })) }
        ensures other { OnOk result (live_in_all (other queue) self.new.accessor.tables ≡ 0) }
        ensures cleaned { self.new.accessor.cleaned ≡ self.old.accessor.cleaned }
    {
        let mut number = 0;
        for slot in tables.into_slots() {
            self.accessor.make_room(number, slot.len())?;
            self.join_unmarked_slot(queue, slot)?;
            number += 1;
        }
        Ok(())
    }

    /// Joins `tables`, newer ones of one slot whose region marks aren't kept, each with the mark that it
    /// implies.
    ///
    /// # Errors
    ///
    /// Those of [`join`](MarkedTables::join). Some of the regions may have been joined then.
    fn join_unmarked_slot(&mut self, queue: LogQueue, tables: RegionTables) -> Result<()>
        requires older { live_in_all (other queue) self.old.accessor.tables ≡ 0 }
        requires newer { live_in_all (other queue) tables ≡ 0 }
        ensures ok { AreRunsOver queue (implied_marks tables) tables self.old.accessor.tables
            → OnOk result (AreJoined queue (regions_in self.old)
            (record { tables = tables; marks = implied_marks tables }) (regions_in self.new)) }
        ensures fault { AreRunsOver queue (implied_marks tables) tables self.old.accessor.tables
            → IfErr result (IsSlotFault queue (regions_in self.old)
            (record { tables = tables; marks = implied_marks tables })) }
        ensures few { OnOk result ((q : LogQueue) → live_in_all q self.new.accessor.tables
            ≤ live_in_all q self.old.accessor.tables + live_in_all q tables) }
        ensures cleaned { self.new.accessor.cleaned ≡ self.old.accessor.cleaned }
    {
        tables.tables_are_own();
        for (id, table) in tables.into_entries() {
            self.join_unmarked_region(queue, id, table)?;
        }
        Ok(())
    }

    /// Joins `newer`, the newer table of the region `id`, whose newer region mark isn't kept: the table, and
    /// the mark that it implies.
    ///
    /// # Errors
    ///
    /// Those of [`join`](MarkedTables::join). The table may have been joined then, and the mark not.
    fn join_unmarked_region(&mut self, queue: LogQueue, id: u64, newer: BoxedTable) -> Result<()>
        requires region { newer.region_id ≡ id }
        requires own { live_of (other queue) newer ≡ 0 }
        requires older { queue ≡ Rewrite → live_in_all Append self.old.accessor.tables ≡ 0 }
        ensures ok { IsRunOver queue (implied_mark newer) newer (table_in self.old.accessor.tables id)
            → OnOk result (joined_region queue id (region_in (regions_in self.old) id)
            (record { mark = implied_mark newer; table = Some newer })
            ≡ Some (region_in (regions_in self.new) id)) }
        ensures others { IsRunOver queue (implied_mark newer) newer
            (table_in self.old.accessor.tables id) → OnOk result (regions_in self.new
            ≡ with_region (regions_in self.old) id (region_in (regions_in self.new) id)) }
        ensures fault { IsRunOver queue (implied_mark newer) newer
            (table_in self.old.accessor.tables id)
            → IfErr result (IsFaultUnder queue self.old.accessor.counts (implied_mark newer) newer
            (table_in self.old.accessor.tables id)) }
        ensures exact_counts { AreCountsOf self.old.accessor.tables self.old.accessor.counts }
        ensures few { OnOk result ((q : LogQueue) → live_in_all q self.new.accessor.tables
            ≤ live_in_all q self.old.accessor.tables + live_of q newer) }
        ensures cleaned { self.new.accessor.cleaned ≡ self.old.accessor.cleaned }
    {
        let table = newer.get();
        let first = table.first_index();
        let mark = self.marks.mark_implied_by(table);
        let ends = self.accessor.join_table(queue, id, Some(newer), &mark)?;
        match first {
            Some(first) => Ok(self.marks.mark_run(queue, id, ends.0, ends.1, first)?),
            None => Ok(()),
        }
    }
}
