//! The tables of all regions with their region marks. A region mark says what the steps on a region do to any
//! older table of it (`Mark`).

ghost use Rattle.std.specs.Prelude.{◌≡◌, ◌≤◌, ◌<◌, ◌^◌, ◌++◌, [], ◌∷◌, map, Ok, OnOk, IfOk, IfErr, MatchBool, Some};
ghost use Rattle.raft_contexts.specs.Common.{IsRun, end_of, LogQueue, Append, Rewrite, item_of, AreInFile, IsStepOfQueue, no_regions, regions_after, on_each, region_steps_of_whole, total, region_step_shown, steps_of_items};
ghost use Rattle.raft_contexts.specs.Common.{cleaned_by_steps, joined_at, joined_mark, mark_of, Mark, other, step_shown, AtomicGroup, start_of, live_in_all, table_in, regions_in, is_put, AreStepsOfQueue, IsStepsFault, one_step};
ghost use Rattle.raft_contexts.specs.Common.{AreStepsTaken, no_counts, AreCountsAfterSteps, whole_shown};
ghost use Rattle.std.specs.FinMap as finite;
ghost use Rattle.std.specs.FinSet as finset;

mod join;
mod overlay;
mod read;

use crate::region_marks::RegionMarks;
use crate::waiting_group::WholeGroup;
use raft_accessor::MemTableAccessor;
use raft_base::{AllocResult, Error, FileId, FileSeq, LogQueue, Result};
use raft_history::RegionStep;
use raft_records::{LogItem, LogItemBatch, LogItemContent};
use raft_table::Step;
use std::alloc::Global;

/// The tables of all regions, and the region marks that these don't imply. A region whose mark isn't kept has
/// the one that its table implies, if it has a table: that of one run of all its entries.
#[derive(Drop)]
pub(crate) struct MarkedTables {
    /// The tables of all regions.
    pub(crate) accessor: MemTableAccessor,
    /// The region marks that the tables don't imply.
    pub(crate) marks: RegionMarks,
}

impl MarkedTables {
    /// Returns a state without tables, region marks and live records.
    ///
    /// # Errors
    ///
    /// `Memory` alone.
    pub(crate) fn new(alloc: Global) -> Result<MarkedTables>
        ensures regions { IfOk result (λ tables. regions_in tables ≡ no_regions) }
        ensures cleaned { IfOk result (λ tables. tables.accessor.cleaned ≡ []) }
        ensures counts { IfOk result (λ tables. tables.accessor.counts ≡ no_counts) }
        ensures memory { IfErr result (λ e. e ≡ Error.Memory) }
    {
        Ok(MarkedTables {
            accessor: MemTableAccessor::new(alloc)?,
            marks: RegionMarks::new(alloc),
        })
    }

    /// Applies the items of a batch of the file `file`, in order, each to the table and the region mark of
    /// its region. The caller has checked that they may stand in that file.
    ///
    /// # Errors
    ///
    /// `Corruption` if entries leave a hole in the append queue; `InvalidArgument` if a table has records of
    /// the other queue; `Full` if the live records and those that the items name are more than 2^64 - 1;
    /// `Memory`. Some of the items may have been applied then.
    pub(crate) fn apply_items(&mut self, file: FileId, items: LogItemBatch) -> Result<()>
        requires { AreInFile file items }
        ensures ok { OnOk result
            (regions_after file.queue (regions_in self.old) (steps_of_items items)
            ≡ Some (regions_in self.new)) }
        ensures cleaned { OnOk result (self.new.accessor.cleaned
            ≡ self.old.accessor.cleaned ++ cleaned_by_steps file.queue (steps_of_items items)) }
        ensures counts { OnOk result (AreCountsAfterSteps file.queue self.old.accessor.tables
            (steps_of_items items) self.old.accessor.counts self.new.accessor.counts) }
        ensures fault { IfErr result (IsStepsFault file.queue (regions_in self.old)
            (steps_of_items items)) }
        ensures other { OnOk result
            (live_in_all (other file.queue) self.new.accessor.tables
            ≤ live_in_all (other file.queue) self.old.accessor.tables) }
    {
        self.apply_each_item(file.queue, items.into_items())
    }

    /// Applies the steps of `whole`, an atomic group of the rewrite queue that became whole. Then sets the
    /// numbers of the files of its Begin and its End as those of the atomic group of each region that it
    /// names.
    ///
    /// # Errors
    ///
    /// `InvalidArgument` if a table has records of the append queue; `Full` if the live records and those
    /// that the group names are more than 2^64 - 1; `Memory`. Some of the steps may have been applied then.
    pub(crate) fn apply_group(&mut self, whole: WholeGroup) -> Result<()>
        requires steps { AreStepsOfQueue Rewrite (whole_shown whole).steps }
        requires seqs { (whole_shown whole).first_seq ≤ (whole_shown whole).last_seq }
        ensures ok { OnOk result
            (regions_after Rewrite (regions_in self.old) (region_steps_of_whole (whole_shown whole))
            ≡ Some (regions_in self.new)) }
        ensures cleaned { OnOk result (self.new.accessor.cleaned ≡ self.old.accessor.cleaned) }
        ensures counts { OnOk result (AreCountsAfterSteps Rewrite self.old.accessor.tables
            (region_steps_of_whole (whole_shown whole)) self.old.accessor.counts
            self.new.accessor.counts) }
        ensures fault { IfErr result (IsStepsFault Rewrite (regions_in self.old)
            (region_steps_of_whole (whole_shown whole))) }
        ensures other { OnOk result (live_in_all Append self.new.accessor.tables
            ≤ live_in_all Append self.old.accessor.tables) }
    {
        let WholeGroup {
            items,
            first_seq,
            last_seq,
        } = whole;
        let regions = items.regions()?;
        self.apply_steps(LogQueue::Rewrite, items.into_steps())?;
        self.set_group_files(&regions, first_seq, last_seq)
    }

    /// Returns how many regions have a region mark, kept or implied by their table.
    pub(crate) fn marks_count(&self) -> u128
        ensures value { result ≡ finite.len (regions_in self.now).marks }
        ensures few { result < 2 ^ 73 }
    {
        self.accessor.tables_count() + self.marks.count_without_table(&self.accessor) as u128
    }

    /// Returns how many deleted keys all region marks have together.
    pub(crate) fn deleted_keys(&self) -> u128
        ensures { result ≡ total (λ (m : Mark). finset.len m.deleted) (regions_in self.now).marks }
    {
        self.marks.deleted_keys()
    }

    /// Applies `items`, which stand in a batch of `queue`, one after another. This is the loop of
    /// [`MarkedTables::apply_items`].
    ///
    /// # Errors
    ///
    /// Those of [`apply_items`](MarkedTables::apply_items). The items before the refused one have been
    /// applied then.
    fn apply_each_item(&mut self, queue: LogQueue, items: Vec<LogItem>) -> Result<()>
        requires { AreStepsOfQueue queue (steps_of_items (map item_of items.items)) }
        ensures { AreStepsTaken queue (steps_of_items (map item_of items.items)) result self.old
            self.new }
    {
        for item in items {
            if !self.try_apply_run(queue, &item)? {
                self.apply_item(queue, item)?;
            }
        }
        Ok(())
    }

    /// Applies `item` if it is a run of entries, and returns whether it did. Returns false, and changes
    /// nothing, for any other item, for a run without entries, and for one that the table refuses, for lack
    /// of memory too. [`apply_item`](MarkedTables::apply_item), which is slower, then applies it or gives the
    /// error.
    ///
    /// # Errors
    ///
    /// `AllocError` if there is no memory for the region mark. The run is in its table then, and not in the
    /// mark.
    fn try_apply_run(&mut self, queue: LogQueue, item: &LogItem) -> AllocResult<bool>
        requires { AreStepsOfQueue queue (steps_of_items (item_of item.now ∷ [])) }
        ensures { IfOk result (λ taken. MatchBool taken
            (AreStepsTaken queue (steps_of_items (item_of item.now ∷ [])) (Ok tt) self.old self.new)
            (self.new ≡ self.old)) }
    {
        let id = item.raft_group_id;
        let LogItemContent::EntryIndexes(entries) = &item.content else {
            return Ok(false);
        };
        let Some(first) = entries.0.first() else {
            return Ok(false);
        };
        let (start, _) = self.ends_of_region(id);
        let Some(end) = self.accessor.try_replay_run(queue, id, &entries.0) else {
            return Ok(false);
        };
        self.marks.mark_run(queue, id, start, end, first.index)?;
        Ok(true)
    }

    /// Sets the numbers of the files of an atomic group's Begin and End, `first_seq` and `last_seq`, for each
    /// of `regions`, which the group names.
    ///
    /// # Errors
    ///
    /// `Memory` alone. Some of the regions have them then.
    fn set_group_files(
        &mut self,
        regions: &[u64],
        first_seq: FileSeq,
        last_seq: FileSeq,
    ) -> Result<()>
        ensures { AreStepsTaken Rewrite (on_each regions.now (AtomicGroup first_seq last_seq))
            result self.old self.new }
    {
        for id in regions {
            let step = Step::AtomicGroup {
                first_seq,
                last_seq,
            };
            self.apply_step(LogQueue::Rewrite, *id, step)?;
        }
        Ok(())
    }

    /// Applies the step of `item`, which was read from `queue`. Does nothing if it has none, as a group
    /// marker.
    ///
    /// # Errors
    ///
    /// Those of [`apply_items`](MarkedTables::apply_items). The step may be in the region mark then, and not
    /// in the table.
    fn apply_item(&mut self, queue: LogQueue, item: LogItem) -> Result<()>
        requires { AreStepsOfQueue queue (steps_of_items (item_of item ∷ [])) }
        ensures { AreStepsTaken queue (steps_of_items (item_of item ∷ [])) result self.old
            self.new }
    {
        match RegionStep::of_item(item) {
            Some(step) => self.apply_step(queue, step.region, step.step),
            None => Ok(()),
        }
    }

    /// Applies `steps`, which were read from `queue`, one after another.
    ///
    /// # Errors
    ///
    /// Those of [`apply_items`](MarkedTables::apply_items). The steps before the refused one have been
    /// applied then.
    fn apply_steps(&mut self, queue: LogQueue, steps: Vec<RegionStep>) -> Result<()>
        requires { AreStepsOfQueue queue (map region_step_shown steps.items) }
        ensures { AreStepsTaken queue (map region_step_shown steps.items) result self.old self.new }
    {
        for step in steps {
            self.apply_step(queue, step.region, step.step)?;
        }
        Ok(())
    }

    /// Applies `step`, which was read from `queue`, to the region `id`: first to its region mark, unless it
    /// is a put, of which marks keep nothing, and then to its table. The bytes of the step move into the
    /// table.
    ///
    /// # Errors
    ///
    /// Those of [`apply_items`](MarkedTables::apply_items). The step may be in the region mark then, and not
    /// in the table.
    fn apply_step(&mut self, queue: LogQueue, id: u64, step: Step) -> Result<()>
        requires { IsStepOfQueue queue (step_shown step) }
        ensures { AreStepsTaken queue (one_step id (step_shown step)) result self.old self.new }
    {
        if is_put(&step) {
            return self.accessor.take_step(queue, id, step);
        }
        let end = self.end_before_run(id, &step);
        self.marks.keep_implied_mark(id, &self.accessor)?;
        self.marks.add_step(id, queue, end, &step)?;
        self.accessor.take_step(queue, id, step)
    }

    /// Returns the index after the last entry of the region `id` if `step` is a run, whose region mark
    /// depends on it. Returns 0 for any other step, and if the region has no entries.
    fn end_before_run(&self, id: u64, step: &Step) -> u64
        ensures { (queue : LogQueue) (m : Mark)
            → joined_at queue result m (mark_of (step_shown step.now))
            ≡ joined_mark queue id m (finite.get self.now.accessor.tables id)
            (mark_of (step_shown step.now)) }
    {
        match step {
            Step::Run(_) => self.ends_of_region(id).1,
            _ => 0,
        }
    }

    /// Returns the index of the first entry of the region `id`, and the index after the last one. Both are 0
    /// if it has none.
    fn ends_of_region(&self, id: u64) -> (u64, u64)
        ensures ends { result ≡ (
          start_of (table_in self.now.accessor.tables id).entries,
          end_of (table_in self.now.accessor.tables id).entries,
        ) }
        ensures run { IsRun (table_in self.now.accessor.tables id).entries }
    {
        match self.accessor.get(id) {
            Some(table) => {
                table.holds_one_run();
                table.ends()
            }
            None => (0, 0),
        }
    }
}

/// Tests whether `step` puts a value under a key. Region marks keep nothing of such steps.
fn is_put(step: &Step) -> bool
    ensures { result ≡ is_put (step_shown step.now) }
{
    matches!(step, Step::Put { .. })
}
