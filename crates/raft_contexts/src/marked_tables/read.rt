//! Batches applied to the tables and region marks from the bytes that they were read from, mostly without a
//! copy of their items.

ghost use Rattle.std.specs.Prelude.{◌≡◌, ◌≤◌, ℕ, List, [], ◌∷◌, Ok, OnOk, IfOk, MatchBool};
ghost use Rattle.raft_contexts.specs.Common.{LogQueue, IsDecodedIn, content_shown, item_shown, AreInFile, StandForSteps, steps_of_items, other, live_in_all, regions_in, AreStepsOfQueue, AreStepsTaken};

use crate::marked_tables::MarkedTables;
use raft_base::{AllocResult, FileBlockHandle, FileId, LogQueue, Result};
use raft_records::{ReadBatch, ReadContent, ReadItem, is_reserved};
use std::alloc::Global;

impl MarkedTables {
    /// Applies the items of `batch`, which was read in the file `file`, in order, each to the table and the
    /// region mark of its region. Runs, and puts in a region that has entries, go into their tables without a
    /// `LogItem` of their own.
    ///
    /// # Errors
    ///
    /// Those of [`apply_items`](MarkedTables::apply_items). Some of the items may have been applied then.
    pub(crate) fn apply_read_batch(
        &mut self,
        alloc: Global,
        file: FileId,
        batch: &ReadBatch<'_>,
    ) -> Result<()>
        requires in_file { AreInFile file batch.now }
        requires stands { StandForSteps file.queue (regions_in self.old) }
        ensures taken { AreStepsTaken file.queue (steps_of_items batch.now) result self.old self.new }
        ensures other { OnOk result
            (live_in_all (other file.queue) self.new.accessor.tables
            ≤ live_in_all (other file.queue) self.old.accessor.tables) }
    {
        let (place, items, spans) = batch.parts();
        let mut rest = spans;
        for item in items {
            // each item takes its spans from the front of those that are left
            let (own, behind) = rest.split_at(item.span_count());
            self.apply_read_item(alloc, file.queue, place, item, own)?;
            rest = behind;
        }
        Ok(())
    }

    /// Applies one item of a batch that was read from `queue`. If it is a run, its entries stand at `place`,
    /// and `spans` has the offset and the length of each in it.
    ///
    /// # Errors
    ///
    /// Those of [`apply_items`](MarkedTables::apply_items). The step may be in the table or the region mark
    /// alone then.
    fn apply_read_item(
        &mut self,
        alloc: Global,
        queue: LogQueue,
        place: FileBlockHandle,
        item: &ReadItem<'_>,
        spans: &[(u32, u32)],
    ) -> Result<()>
        requires steps { AreStepsOfQueue queue
            (steps_of_items (item_shown place item.now spans.now ∷ [])) }
        requires decoded { IsDecodedIn place.id (content_shown place item.now.content spans.now) }
        requires stands { StandForSteps queue (regions_in self.old) }
        ensures { AreStepsTaken queue (steps_of_items (item_shown place item.now spans.now ∷ []))
            result self.old self.new }
    {
        if self.try_apply_spans(queue, place, item, spans)? {
            return Ok(());
        }
        if self.try_apply_put(place, item) {
            return Ok(());
        }
        let item = item.to_item(alloc, place, spans)?;
        self.apply_item(queue, item)
    }

    /// Applies `item` if it is a run of entries, and returns whether it did. The entries stand at `place`,
    /// and `spans` has the offset and the length of each in it. Returns false, and changes nothing, for any
    /// other item, for a run without entries, and for one that the table refuses, for lack of memory too. A
    /// run that begins among the entries of its region, or right after them, leaves the region mark as it is,
    /// which isn't even looked up.
    ///
    /// # Errors
    ///
    /// `AllocError` if there is no memory for the region mark. The run is in its table then, and not in the
    /// mark.
    fn try_apply_spans(
        &mut self,
        queue: LogQueue,
        place: FileBlockHandle,
        item: &ReadItem<'_>,
        spans: &[(u32, u32)],
    ) -> AllocResult<bool>
        requires steps { AreStepsOfQueue queue
            (steps_of_items (item_shown place item.now spans.now ∷ [])) }
        requires stands { StandForSteps queue (regions_in self.old) }
        ensures { IfOk result (λ taken. MatchBool taken
            (AreStepsTaken queue (steps_of_items (item_shown place item.now spans.now ∷ []))
            (Ok tt) self.old self.new)
            (self.new ≡ self.old)) }
    {
        let id = item.region;
        let ReadContent::Run { first, .. } = &item.content else {
            return Ok(false);
        };
        let first = *first;
        if spans.is_empty() {
            return Ok(false);
        }
        let Some((start, end)) = self
            .accessor
            .try_replay_block(queue, id, first, place, spans)
        else {
            return Ok(false);
        };
        if 0 < end && start <= first && first <= end {
            return Ok(true);
        }
        self.marks.mark_run(queue, id, start, end, first)?;
        Ok(true)
    }

    /// Applies `item` if it puts a value in a region that has entries, and returns whether it did. The batch
    /// stands at `place`. Returns false, and changes nothing, for any other item, for a group marker, and if
    /// the table refuses the put, for lack of memory too.
    fn try_apply_put(&mut self, place: FileBlockHandle, item: &ReadItem<'_>) -> bool
        ensures { (queue : LogQueue) (spans : List (ℕ × ℕ)) → MatchBool result
            (AreStepsTaken queue (steps_of_items (item_shown place item.now spans ∷ []))
            (Ok tt) self.old self.new)
            (self.new ≡ self.old) }
    {
        let ReadContent::Put { key, value } = &item.content else {
            return false;
        };
        if is_reserved(key) {
            return false;
        }
        self.accessor.try_put(item.region, key, value, place.id)
    }
}
