//! Rewritten tables put under those of the append queue, as the region marks of the append queue say.

ghost use Rattle.std.specs.Prelude.{◌≡◌, ◌+◌, ◌≤◌, IfErr, OnOk};
ghost use Rattle.raft_contexts.specs.Common.{LogQueue, Append, Rewrite, StandForSteps, AreOverlaid, all_records, live_in_all, implied_marks, regions_in, AreRunsOverlaid, AreTooMany, AreMarksOverlaid};

use crate::marked_tables::MarkedTables;
use crate::region_marks::{RegionMarks, SlotMarks};
use raft_accessor::{MemTableAccessor, RegionTables};
use raft_base::Result;

impl MarkedTables {
    /// Puts `appended`, the tables of the append queue, over these rewritten ones, as the region marks of
    /// `appended` say. The cleaned regions become those of the append queue.
    ///
    /// # Errors
    ///
    /// `Full` if both together have more than 2^64 - 1 records; `Memory`. Some of the regions may have been
    /// overlaid then, and the rest of `appended` is dropped.
    pub(crate) fn overlay(&mut self, appended: MarkedTables) -> Result<()>
        requires own { live_in_all Rewrite appended.accessor.tables ≡ 0 }
        ensures ok { StandForSteps Rewrite (regions_in self.old)
            → StandForSteps Append (regions_in appended)
            → OnOk result
            (AreOverlaid (regions_in appended) self.old.accessor.tables self.new.accessor.tables) }
        ensures cleaned { OnOk result (self.new.accessor.cleaned ≡ appended.accessor.cleaned) }
        ensures fault { IfErr result (AreTooMany
            (all_records self.old.accessor.tables + all_records appended.accessor.tables)) }
    {
        let MarkedTables {
            mut accessor,
            marks,
        } = appended;
        self.overlay_marked(marks, &mut accessor)?;
        self.accessor.take_cleaned(&mut accessor);
        self.overlay_unmarked(accessor)
    }

    /// Puts each region of the append queue whose region mark is kept in `marks` over the rewritten one, and
    /// takes its table, if it has one, out of `appended`. The tables of the other regions stay there, for
    /// [`overlay_unmarked`](MarkedTables::overlay_unmarked).
    ///
    /// # Errors
    ///
    /// Those of [`overlay`](MarkedTables::overlay). Some of the regions may have been overlaid then.
    fn overlay_marked(&mut self, marks: RegionMarks, appended: &mut MemTableAccessor) -> Result<()>
        requires own { live_in_all Rewrite appended.old.tables ≡ 0 }
        ensures { AreMarksOverlaid marks result self.old.accessor.tables self.new.accessor.tables
            appended.old appended.new }
    {
        for slot in marks.into_slots() {
            self.overlay_marked_slot(slot, appended)?;
        }
        Ok(())
    }

    /// Puts each region of one slot of the append queue whose region mark is kept in `marks` over the
    /// rewritten one, and takes its table, if it has one, out of `appended`.
    ///
    /// # Errors
    ///
    /// Those of [`overlay`](MarkedTables::overlay). Some of the regions may have been overlaid then.
    fn overlay_marked_slot(
        &mut self,
        marks: SlotMarks,
        appended: &mut MemTableAccessor,
    ) -> Result<()>
        requires own { live_in_all Rewrite appended.old.tables ≡ 0 }
        ensures { AreMarksOverlaid marks result self.old.accessor.tables self.new.accessor.tables
            appended.old appended.new }
    {
        for (id, mark) in marks.into_entries() {
            let table = appended.take(id);
            let mark = mark.into_mark();
            self.accessor.overlay_table(id, table, &mark)?;
        }
        Ok(())
    }

    /// Puts `appended`, the tables of the append queue whose region marks aren't kept, over the rewritten
    /// ones, each by the mark that it implies.
    ///
    /// # Errors
    ///
    /// Those of [`overlay`](MarkedTables::overlay). Some of the regions may have been overlaid then.
    fn overlay_unmarked(&mut self, appended: MemTableAccessor) -> Result<()>
        requires own { live_in_all Rewrite appended.tables ≡ 0 }
        ensures ok { AreRunsOverlaid (implied_marks appended.tables) appended.tables
            self.old.accessor.tables
            → OnOk result (AreOverlaid
            (record { tables = appended.tables; marks = implied_marks appended.tables })
            self.old.accessor.tables self.new.accessor.tables) }
        ensures cleaned { self.new.accessor.cleaned ≡ self.old.accessor.cleaned }
        ensures fault { IfErr result (λ e. (q : LogQueue)
            × AreTooMany (live_in_all q self.old.accessor.tables
            + live_in_all q appended.tables) e) }
    {
        for slot in appended.into_slots() {
            self.overlay_unmarked_slot(slot)?;
        }
        Ok(())
    }

    /// Puts `appended`, tables of one slot of the append queue whose region marks aren't kept, over the
    /// rewritten ones, each by the mark that it implies.
    ///
    /// # Errors
    ///
    /// Those of [`overlay`](MarkedTables::overlay). Some of the regions may have been overlaid then.
    fn overlay_unmarked_slot(&mut self, appended: RegionTables) -> Result<()>
        requires own { live_in_all Rewrite appended ≡ 0 }
        ensures ok { AreRunsOverlaid (implied_marks appended) appended self.old.accessor.tables
            → OnOk result (AreOverlaid
            (record { tables = appended; marks = implied_marks appended })
            self.old.accessor.tables self.new.accessor.tables) }
        ensures few { OnOk result ((q : LogQueue) → live_in_all q self.new.accessor.tables
            ≤ live_in_all q self.old.accessor.tables + live_in_all q appended) }
        ensures cleaned { self.new.accessor.cleaned ≡ self.old.accessor.cleaned }
        ensures fault { IfErr result (λ e. (q : LogQueue)
            × AreTooMany (live_in_all q self.old.accessor.tables + live_in_all q appended) e) }
    {
        appended.tables_are_own();
        for (id, table) in appended.into_entries() {
            let mark = self.marks.mark_implied_by(table.get());
            self.accessor.overlay_table(id, Some(table), &mark)?;
        }
        Ok(())
    }
}
