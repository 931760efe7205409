//! Steps on the table of one region, which is made where there is none. The caller has tested that runs and
//! files are of the queue.

ghost use Rattle.std.specs.Prelude.{◌≡◌, ◌≢◌, [], true, Ok, Err, OnSome, IfSome, ok_or, if◌then◌else◌};
ghost use Rattle.raft_accessor.specs.Common.{Memory, LogQueue, Rewrite, end_of, entries_of_block, other, counts_with_run, step_shown, Put, after_replay, live_of, IsRunIn, IsRunPut, IsStepOfQueue, table_in, live_in, AreCountsOf};
ghost use Rattle.raft_accessor.specs.Common.{IsTableChanged, IsTableOverlaid, IsStepTaken};

use crate::accessor::{MemTableAccessor, slot_of};
use crate::boxed_table::BoxedTable;
use raft_base::{EntryIndex, FileBlockHandle, FileId, LogQueue, Result};
use raft_table::{Mark, Run, Step};

impl MemTableAccessor {
    /// Applies `step`, which was read from `queue`, to the table of the region `id`, for which an empty one
    /// is made first if it has none. A clean removes the table; in the append queue it also appends the
    /// region to the cleaned ones.
    ///
    /// # Errors
    ///
    /// `Corruption` if a run in the append queue would leave a hole after the entries; `InvalidArgument` for
    /// a run if the table has records of the other queue; `Full` if more than 2^64 - 1 records would be live
    /// in the queue; `Memory`. Tables, counts and the list of cleaned regions are unchanged then.
    pub fn take_step(&mut self, queue: LogQueue, id: u64, step: Step) -> Result<()>
        requires { IsStepOfQueue queue (step_shown step) }
        ensures taken { IsStepTaken queue id (step_shown step) self.old.tables self.old.counts
            self.old.cleaned result self.new.tables self.new.counts self.new.cleaned }
        ensures exact_counts { AreCountsOf self.old.tables self.old.counts }
    {
        self.slots[slot_of(id)].take_step(queue, id, step, &mut self.stats, &mut self.cleaned)
    }

    /// Puts `run`, which was read from `queue`, into the table of the region `id`, for which an empty one is
    /// made first if it has none. Returns the index after the last entry that the table had before, or 0 if
    /// it had none.
    ///
    /// Returns `None`, and changes nothing, if [`MemTableAccessor::take_step`] would refuse the run, for lack
    /// of memory too. Recovery tries this first, and gets the error from the slower call.
    #[inline(never)]
    pub fn try_replay_run(&mut self, queue: LogQueue, id: u64, run: &[EntryIndex]) -> Option<u64>
        requires run { IsRunIn queue run.now }
        ensures changed { IsTableChanged (after_replay queue (table_in self.old.tables id) run.now)
            (λ e. ⊥) id (ok_or result Memory) self.old self.new }
        ensures accepted { OnSome result (live_of (other queue) (table_in self.old.tables id) ≡ 0) }
        ensures counts { OnSome result (self.new.counts
            ≡ counts_with_run queue (table_in self.old.tables id).entries run.now self.old.counts) }
        ensures end { IfSome result (λ end. end ≡ end_of (table_in self.old.tables id).entries) }
    {
        let run = Run::Entries(run);
        let (_, end) = self.slots[slot_of(id)].try_replay(queue, id, &run, &mut self.stats)?;
        Some(end)
    }

    /// Puts the entries of a block that was read from `queue` into the table of the region `id`, as
    /// [`MemTableAccessor::try_replay_run`] puts a run. `place` is where the block stands, `spans` has the
    /// offset and the length of each entry in it, and their indexes rise by one from `first` on. Returns the
    /// index of the first entry that the table had before and the index after the last one, both 0 if it had
    /// none; or `None`, with nothing changed, if the run is refused.
    #[doc(hidden)]
    #[inline(always)]
    pub fn try_replay_block(
        &mut self,
        queue: LogQueue,
        id: u64,
        first: u64,
        place: FileBlockHandle,
        spans: &[(u32, u32)],
    ) -> Option<(u64, u64)>
        requires run { IsRunIn queue (entries_of_block first place spans.now) }
        ensures { IsRunPut queue id (entries_of_block first place spans.now) result self.old self.new }
    {
        let run = Run::Block {
            first,
            handle: place,
            spans,
        };
        self.slots[slot_of(id)].try_replay(queue, id, &run, &mut self.stats)
    }

    /// Puts copies of `key` and `value`, whose record stands in `file`, into the table of the region `id`, if
    /// that has entries. Returns whether it did.
    ///
    /// Returns false, and changes nothing, if the table has no entries or there is none, or if
    /// [`MemTableAccessor::take_step`] would refuse the put, for lack of memory too.
    #[doc(hidden)]
    pub fn try_put(&mut self, id: u64, key: &[u8], value: &[u8], file: FileId) -> bool
        ensures taken { (queue : LogQueue) → IsStepTaken queue id (Put key.now value.now file)
            self.old.tables self.old.counts self.old.cleaned
            (if result then Ok tt else Err Memory) self.new.tables self.new.counts
            self.new.cleaned }
        ensures entries { result ≡ true → (table_in self.old.tables id).entries ≢ [] }
    {
        self.slots[slot_of(id)].try_put(id, key, value, file, &mut self.stats)
    }

    /// Puts the table that the append queue gives the region `id`, or its absence, over the rewritten table
    /// that stands here. `mark`, the region mark of the append queue, says what of the rewritten table stays.
    ///
    /// # Errors
    ///
    /// Those of [`MemTable::overlay`](raft_table::MemTable::overlay); `Memory`. `appended` is dropped then,
    /// and the counts still agree with the tables.
    #[doc(hidden)]
    pub fn overlay_table(
        &mut self,
        id: u64,
        appended: Option<BoxedTable>,
        mark: &Mark,
    ) -> Result<()>
        requires region { IfSome appended (λ t. t.region_id ≡ id) }
        requires own { live_in Rewrite appended ≡ 0 }
        ensures overlaid { IsTableOverlaid mark.now appended self.old.tables id self.old.counts
            result self.new.tables self.new.counts }
        ensures exact_counts { AreCountsOf self.old.tables self.old.counts }
        ensures cleaned { self.new.cleaned ≡ self.old.cleaned }
    {
        self.slots[slot_of(id)].overlay_table(id, appended, mark, &mut self.stats)
    }
}
