//! The region marks of the regions of one slot.

ghost use Rattle.std.specs.Prelude.{◌≡◌, ◌≢◌, ◌<◌, ◌^◌, ℕ, nat_eq, OnOk, OnErr, Some, is_some, option_map};
ghost use Rattle.raft_contexts.specs.Common.{IsDistinct, keys_of, total, Mark, fresh, mark_of, joined_at, step_shown, absent_in, count_absent, mark_in, run_at, MayChangeMark, IsMarkUpdated};
ghost use Rattle.std.specs.FinMap as finite;
ghost use Rattle.std.specs.FinSet as finset;

use crate::region_marks::small_mark::SmallMark;
use raft_accessor::MemTableAccessor;
use raft_base::{AllocResult, LogQueue};
use raft_table::{Mark, Step};
use std::alloc::{AllocError, Global};
use std::collections::HashMap;
use std::collections::hash_map::IntoIter;
use std::marker::Model;

/// The most region marks that a slot keeps. So those of all slots can be counted in a `usize`, and their
/// deleted keys in a `u128`.
const MOST_MARKS: usize = (1 << 57) - 1;

/// The region marks that are kept for the regions of a slot, each under its region's id.
#[derive(Drop)]
pub(crate) struct SlotMarks {
    marks: HashMap<u64, SmallMark>,
    alloc: Global,
}

impl Model for SlotMarks {
    ghost use Rattle.std.specs.FinMap as finite;
    ghost use Rattle.std.specs.Coded.{coded_ℕ};
    ghost use Rattle.raft_table.specs.MarkCode.{mark_code};
    ghost use Rattle.raft_history.specs.MarkedRegions.{Marks};

    ghost Value = { Marks };

    ghost coded = { finite.code coded_ℕ mark_code };

    ghost use Rattle.raft_contexts.specs.SlotMarksView.{slot_shown, AreFewMarks};

    ghost view = { slot_shown };

    ghost invariant = { AreFewMarks };
}

impl SlotMarks {
    /// Returns a slot without region marks. It allocates nothing yet.
    pub(crate) fn new(alloc: Global) -> SlotMarks
        ensures { result ≡ finite.empty }
    {
        SlotMarks {
            marks: HashMap::new(alloc),
            alloc,
        }
    }

    /// Returns how many region marks are kept.
    pub(crate) fn len(&self) -> usize
        ensures value { result ≡ finite.len self.now }
        ensures few { result < 2 ^ 57 }
    {
        self.marks.len()
    }

    /// Tests whether a region mark is kept for the region `id`.
    pub(crate) fn has_mark(&self, id: u64) -> bool
        ensures { result ≡ is_some (finite.get self.now id) }
    {
        self.marks.contains_key(&id)
    }

    /// Returns the region mark that is kept for the region `id`, or `None` if none is.
    pub(crate) fn get(&self, id: u64) -> Option<&SmallMark>
        ensures { option_map (λ m. m.now) result ≡ finite.get self.now id }
    {
        self.marks.get(&id)
    }

    /// Keeps the region mark of one run, which starts at index `start`, for the region `id`, in place of the
    /// one that is kept.
    ///
    /// # Errors
    ///
    /// `AllocError` if there is no memory, or too many marks are kept (`MOST_MARKS`). The region marks are
    /// unchanged then.
    pub(crate) fn keep_run_mark(&mut self, id: u64, start: u64) -> AllocResult<()>
        ensures ok { OnOk result (self.new ≡ finite.insert self.old id (run_at start)) }
        ensures err { OnErr result (self.new ≡ self.old) }
    {
        self.keep_mark(id, SmallMark::of_run(self.alloc, start))
    }

    /// Returns how many deleted keys all kept region marks have together.
    pub(crate) fn deleted_keys(&self) -> u128
        ensures value { result ≡ total (λ (m : Mark). finset.len m.deleted) self.now }
        ensures few { result < 2 ^ 121 }
    {
        let mut count = 0;
        for mark in self.marks.values() {
            count += mark.deleted_keys() as u128;
        }
        count
    }

    /// Returns how many of the regions whose mark is kept here have no table in `tables`.
    pub(crate) fn count_without_table(&self, tables: &MemTableAccessor) -> u64
        ensures value { result ≡ count_absent tables.now.tables (keys_of (finite.entries self.now)) }
        ensures few { result < 2 ^ 57 }
    {
        let mut count = 0;
        for id in self.marks.keys() {
            count += one_if_absent(tables, *id);
        }
        count
    }

    /// Adds a run that starts at index `start` to the region mark of the region `id`, or to that of no step
    /// if none is kept, and keeps the result. `end` is the index after the last entry that the context gave
    /// the region before the run, or 0 if it gave none.
    ///
    /// # Errors
    ///
    /// `AllocError` if there is no memory, or too many marks are kept (`MOST_MARKS`). The region marks are
    /// unchanged then.
    pub(crate) fn add_run(
        &mut self,
        id: u64,
        queue: LogQueue,
        end: u64,
        start: u64,
    ) -> AllocResult<()>
        ensures ok { OnOk result (self.new
            ≡ finite.insert self.old id (joined_at queue end (mark_in self.old id)
            (record fresh { reach = Some start; cut = Some start }))) }
        ensures err { OnErr result (self.new ≡ self.old) }
    {
        if let Some(mark) = self.marks.get_mut(&id) {
            return mark.add_run(queue, end, start);
        }
        self.keep_mark(id, SmallMark::of_run(self.alloc, start))
    }

    /// Adds `step` to the region mark of the region `id`, or to that of no step if none is kept, and keeps
    /// the result. If the step is a run, `end` is the index after the last entry that the context gave the
    /// region before it, or 0 if it gave none. The key of a deletion is copied.
    ///
    /// # Errors
    ///
    /// `AllocError` if there is no memory, or too many marks are kept (`MOST_MARKS`). The region marks are
    /// unchanged then.
    pub(crate) fn add_step(
        &mut self,
        id: u64,
        queue: LogQueue,
        end: u64,
        step: &Step,
    ) -> AllocResult<()>
        ensures ok { OnOk result (self.new
            ≡ finite.insert self.old id
            (joined_at queue end (mark_in self.old id) (mark_of (step_shown step.now)))) }
        ensures err { OnErr result (self.new ≡ self.old) }
    {
        self.update(id, move |mark: &mut Mark| mark.add_step(queue, end, step))
    }

    /// Joins `newer`, the region mark of the steps that follow, to that of the region `id`, or to that of no
    /// step if none is kept, and keeps the result. `end_at_reach` is the index after the last entry of the
    /// region in the older context that the first newer run meets.
    ///
    /// # Errors
    ///
    /// `AllocError` if there is no memory, or too many marks are kept (`MOST_MARKS`). The mark of the region
    /// may lack deleted keys then, and must not be used.
    pub(crate) fn join(
        &mut self,
        id: u64,
        queue: LogQueue,
        end_at_reach: u64,
        newer: Mark,
    ) -> AllocResult<()>
        ensures ok { OnOk result (self.new
            ≡ finite.insert self.old id
            (joined_at queue end_at_reach (mark_in self.old id) newer)) }
        ensures others { (q : ℕ) → q ≢ id → finite.get self.new q ≡ finite.get self.old q }
    {
        self.update(id, move |mark: &mut Mark| {
            let mut newer = newer;
            mark.join(queue, end_at_reach, &mut newer)
        })
    }

    /// Reserves memory so that the slot can hold `count` region marks, with those that it has.
    ///
    /// # Errors
    ///
    /// `AllocError` if there is no memory. The region marks are the same in either case.
    pub(crate) fn make_room(&mut self, count: usize) -> AllocResult<()>
        ensures { self.new ≡ self.old }
    {
        self.marks.reserve(count.saturating_sub(self.marks.len()))
    }

    /// Returns the region marks, each with the id of its region, in no set order.
    pub(crate) fn into_entries(self) -> IntoIter<u64, SmallMark>
        ensures entries { finite.from_entries result ≡ self }
        ensures once { IsDistinct nat_eq (keys_of result) }
    {
        self.marks.into_iter()
    }

    /// Calls `change` with the region mark of the region `id`, or with that of no step if none is kept, and
    /// keeps the result. A mark that is kept is looked up once.
    ///
    /// # Errors
    ///
    /// That of `change`; `AllocError` if there is no memory to keep the result, or too many marks are kept
    /// (`MOST_MARKS`). The marks of other regions are unchanged then.
    #[inline(always)]
    fn update<F: FnOnce(&mut Mark) -> AllocResult<()>>(
        &mut self,
        id: u64,
        change: F,
    ) -> AllocResult<()>
    where
        F: Drop,
        requires { MayChangeMark F.FnOnce change (mark_in self.old id) }
        ensures { IsMarkUpdated F.FnOnce change self.old id result self.new }
    {
        if let Some(mark) = self.marks.get_mut(&id) {
            return mark.update(change);
        }
        let mark = SmallMark::from_changed(self.alloc, Mark::new(self.alloc), change)?;
        self.keep_mark(id, mark)
    }

    /// Keeps `mark` as the region mark of the region `id`, in place of the one that is kept.
    ///
    /// # Errors
    ///
    /// `AllocError` if there is no memory, or `MOST_MARKS` are kept already. The region marks are unchanged
    /// then.
    fn keep_mark(&mut self, id: u64, mark: SmallMark) -> AllocResult<()>
        ensures ok { OnOk result (self.new ≡ finite.insert self.old id mark) }
        ensures err { OnErr result (self.new ≡ self.old) }
    {
        if self.marks.len() >= MOST_MARKS {
            return Err(AllocError);
        }
        self.marks.insert(id, mark)?;
        Ok(())
    }
}

/// Returns 1 if the region `id` has no table in `tables`, else 0.
fn one_if_absent(tables: &MemTableAccessor, id: u64) -> u64
    ensures { result ≡ absent_in tables.now.tables id }
{
    u64::from(tables.get(id).is_none())
}
