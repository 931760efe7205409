//! The region marks of some regions. A region mark says what steps on a region do to any older table of it
//! (`Mark`).

ghost use Rattle.std.specs.Prelude.{◌≡◌, ◌≤◌, ◌<◌, length, replicate, IfOk, OnOk, OnErr, Some, is_some, option_map};
ghost use Rattle.raft_contexts.specs.Common.{keys_of, total, Mark, fresh, mark_of, joined_at, step_shown, together, AreSlots, count_absent, implied_mark, all_marks, mark_in, run_at, with_slots, IsRunKept};
ghost use Rattle.std.specs.FinMap as finite;
ghost use Rattle.std.specs.FinSet as finset;

mod slot;
mod small_mark;

use raft_accessor::{MemTableAccessor, slot_of};
use raft_base::{AllocResult, LogQueue};
use raft_table::{Mark, MemTable, Step};
pub(crate) use slot::SlotMarks;
pub(crate) use small_mark::SmallMark;
use std::alloc::Global;
use std::marker::Model;

/// The region marks that are kept, each under its region's id. Other regions may have a mark that isn't kept:
/// their table implies it ([`mark_implied_by`](RegionMarks::mark_implied_by)).
///
/// They stand in 128 slots, as the tables do, or in none while no mark was needed.
#[derive(Drop)]
pub struct RegionMarks {
    slots: Vec<SlotMarks>,
    alloc: Global,
}

impl Model for RegionMarks {
    ghost use Rattle.std.specs.FinMap as finite;
    ghost use Rattle.std.specs.Coded.{coded_ℕ};
    ghost use Rattle.raft_table.specs.MarkCode.{mark_code};
    ghost use Rattle.raft_history.specs.MarkedRegions.{Marks};

    ghost Value = { Marks };

    ghost coded = { finite.code coded_ℕ mark_code };

    ghost use Rattle.raft_contexts.specs.RegionMarksView.{marks_shown, AreMarksKept};

    ghost view = { marks_shown };

    ghost invariant = { AreMarksKept };
}

impl RegionMarks {
    /// Returns a set without region marks. It allocates nothing yet.
    pub fn new(alloc: Global) -> RegionMarks
        ensures { result ≡ finite.empty }
    {
        RegionMarks {
            slots: Vec::new(alloc),
            alloc,
        }
    }

    /// Returns how many region marks are kept.
    pub fn len(&self) -> usize
        ensures { result ≡ finite.len self.now }
    {
        let mut count = 0;
        for slot in &self.slots {
            count += slot.len();
        }
        count
    }

    /// Returns how many deleted keys all kept region marks have together.
    pub fn deleted_keys(&self) -> u128
        ensures { result ≡ total (λ (m : Mark). finset.len m.deleted) self.now }
    {
        let mut count = 0;
        for slot in &self.slots {
            count += slot.deleted_keys();
        }
        count
    }

    /// Returns how many of the regions whose mark is kept here have no table in `tables`.
    pub(crate) fn count_without_table(&self, tables: &MemTableAccessor) -> u64
        ensures { result ≡ count_absent tables.now.tables (keys_of (finite.entries self.now)) }
    {
        let mut count = 0;
        for slot in &self.slots {
            count += slot.count_without_table(tables);
        }
        count
    }

    /// Adds a run that starts at index `start` to the region mark of the region `id`, or to that of no step
    /// if none is kept, and keeps the result. `end` is the index after the last entry that the context gave
    /// the region before the run, or 0 if it gave none.
    ///
    /// # Errors
    ///
    /// `AllocError` if there is no memory. The region marks are unchanged then.
    pub fn add_run(&mut self, id: u64, queue: LogQueue, end: u64, start: u64) -> AllocResult<()>
        ensures ok { OnOk result (self.new
            ≡ finite.insert self.old id (joined_at queue end (mark_in self.old id)
            (record fresh { reach = Some start; cut = Some start }))) }
        ensures err { OnErr result (self.new ≡ self.old) }
    {
        fill_missing_slots(&mut self.slots, self.alloc)?;
        self.slots[slot_of(id)].add_run(id, queue, end, start)
    }

    /// Adds `step` to the region mark of the region `id`, or to that of no step if none is kept, and keeps
    /// the result. If the step is a run, `end` is the index after the last entry that the context gave the
    /// region before it, or 0 if it gave none. The key of a deletion is copied.
    ///
    /// # Errors
    ///
    /// `AllocError` if there is no memory. The region marks are unchanged then.
    pub fn add_step(&mut self, id: u64, queue: LogQueue, end: u64, step: &Step) -> AllocResult<()>
        ensures ok { OnOk result (self.new
            ≡ finite.insert self.old id
            (joined_at queue end (mark_in self.old id) (mark_of (step_shown step.now)))) }
        ensures err { OnErr result (self.new ≡ self.old) }
    {
        fill_missing_slots(&mut self.slots, self.alloc)?;
        self.slots[slot_of(id)].add_step(id, queue, end, step)
    }

    /// Joins `newer`, the region mark of the steps that follow, to that of the region `id`, or to that of no
    /// step if none is kept, and keeps the result. `end_at_reach` is the index after the last entry of the
    /// region in the older context that the first newer run meets
    /// ([`MemTable::end_at_reach`](raft_table::MemTable::end_at_reach)).
    ///
    /// # Errors
    ///
    /// `AllocError` if there is no memory. The mark of the region may lack deleted keys then, and must not be
    /// used.
    pub fn join(
        &mut self,
        id: u64,
        queue: LogQueue,
        end_at_reach: u64,
        newer: Mark,
    ) -> AllocResult<()>
        ensures ok { OnOk result (self.new
            ≡ finite.insert self.old id
            (joined_at queue end_at_reach (mark_in self.old id) newer)) }
    {
        fill_missing_slots(&mut self.slots, self.alloc)?;
        self.slots[slot_of(id)].join(id, queue, end_at_reach, newer)
    }

    /// Tests whether a region mark is kept for the region `id`.
    fn has_mark(&self, id: u64) -> bool
        ensures { result ≡ is_some (finite.get self.now id) }
    {
        if self.slots.is_empty() {
            return false;
        }
        self.slots[slot_of(id)].has_mark(id)
    }

    /// Returns the region mark that is kept for the region `id`, or `None` if none is.
    pub(crate) fn get(&self, id: u64) -> Option<&SmallMark>
        ensures { option_map (λ m. m.now) result ≡ finite.get self.now id }
    {
        if self.slots.is_empty() {
            return None;
        }
        self.slots[slot_of(id)].get(id)
    }

    /// Keeps the region mark of one run, which starts at index `start`, for the region `id`, in place of the
    /// one that is kept.
    ///
    /// # Errors
    ///
    /// `AllocError` if there is no memory. The region marks are unchanged then.
    fn keep_run_mark(&mut self, id: u64, start: u64) -> AllocResult<()>
        ensures ok { OnOk result (self.new ≡ finite.insert self.old id (run_at start)) }
        ensures err { OnErr result (self.new ≡ self.old) }
    {
        fill_missing_slots(&mut self.slots, self.alloc)?;
        self.slots[slot_of(id)].keep_run_mark(id, start)
    }

    /// Keeps the region mark of the region `id`, if only its table in `tables` has implied it so far. Call it
    /// before the table changes, which would then imply another mark. A table without entries implies the
    /// mark of no step, which needn't be kept.
    ///
    /// # Errors
    ///
    /// `AllocError` if there is no memory. The table still implies the mark then.
    pub(crate) fn keep_implied_mark(
        &mut self,
        id: u64,
        tables: &MemTableAccessor,
    ) -> AllocResult<()>
        ensures same { all_marks tables.now.tables self.new ≡ all_marks tables.now.tables self.old }
        ensures kept { OnOk result (mark_in self.new id ≡ mark_in (all_marks tables.now.tables self.old) id) }
    {
        if self.has_mark(id) {
            return Ok(());
        }
        let Some(table) = tables.get(id) else {
            return Ok(());
        };
        match table.first_index() {
            Some(start) => self.keep_run_mark(id, start),
            None => Ok(()),
        }
    }

    /// Adds a run that starts at index `first` to the region mark of the region `id`. Before the run the
    /// region had entries at the indexes `start..end`; both are 0 if it had none. Nothing is kept if the
    /// table still implies the mark, as after a run that begins among the entries or right after them.
    ///
    /// # Errors
    ///
    /// `AllocError` if there is no memory. The region mark lacks the run then.
    #[inline(always)]
    pub(crate) fn mark_run(
        &mut self,
        queue: LogQueue,
        id: u64,
        start: u64,
        end: u64,
        first: u64,
    ) -> AllocResult<()>
        ensures { OnOk result (IsRunKept queue id start end first self.old self.new) }
    {
        if self.has_mark(id) {
            return self.add_run(id, queue, end, first);
        }
        if end == 0 {
            return Ok(());
        }
        if start <= first && first <= end {
            return Ok(());
        }
        self.keep_run_mark(id, start)?;
        self.add_run(id, queue, end, first)
    }

    /// Returns the region mark that `table` implies, as long as none is kept for its region: the mark of one
    /// run of all its entries, or that of no step if it has none.
    pub(crate) fn mark_implied_by(&self, table: &MemTable) -> Mark
        ensures { result ≡ implied_mark table.now }
    {
        match table.first_index() {
            Some(first) => Mark::of_run(self.alloc, first),
            None => Mark::new(self.alloc),
        }
    }

    /// Returns the region mark of no step, which leaves older tables as they are.
    pub(crate) fn mark_of_no_step(&self) -> Mark
        ensures { result ≡ fresh }
    {
        Mark::new(self.alloc)
    }

    /// Reserves memory in the slot numbered `slot`, below 128, so that it can hold `count` region marks, with
    /// those that it has.
    ///
    /// # Errors
    ///
    /// `AllocError` if there is no memory. The region marks are the same in either case.
    pub(crate) fn make_room(&mut self, slot: usize, count: usize) -> AllocResult<()>
        requires { slot < 128 }
        ensures { self.new ≡ self.old }
    {
        fill_missing_slots(&mut self.slots, self.alloc)?;
        self.slots[slot].make_room(count)
    }

    /// Returns the region marks by slots, slot n at index n: 128 of them, or none if no mark was needed so
    /// far.
    pub(crate) fn into_slots(self) -> Vec<SlotMarks>
        ensures marks { together result.items ≡ self }
        ensures slots { AreSlots 0 result.items }
        ensures few { length result.items ≤ 128 }
    {
        self.slots
    }
}

/// Fills `slots` with the 128 slots, which have no region marks, if it is empty.
///
/// # Errors
///
/// `AllocError` if there is no memory. `slots` is still empty then.
fn fill_missing_slots(slots: &mut Vec<SlotMarks>, alloc: Global) -> AllocResult<()>
    ensures ok { OnOk result (slots.new.items ≡ with_slots slots.old.items) }
    ensures err { OnErr result (slots.new.items ≡ slots.old.items) }
{
    if slots.is_empty() {
        *slots = empty_slots(alloc)?;
    }
    Ok(())
}

/// Returns 128 slots without region marks.
///
/// # Errors
///
/// `AllocError` if there is no memory.
fn empty_slots(alloc: Global) -> AllocResult<Vec<SlotMarks>>
    ensures { IfOk result (λ slots. slots.items ≡ replicate 128 finite.empty) }
{
    let mut slots = Vec::with_capacity(alloc, 128)?;
    for _ in 0..128usize {
        slots.push(SlotMarks::new(alloc))?;
    }
    Ok(slots)
}
