//! Tables joined with those of a newer neighbor, which has the batches directly after these in the same
//! queue. A region mark (`Mark`) says what these batches do to any older table of a region.

ghost use Rattle.std.specs.Prelude.{◌≡◌, ◌<◌, ◌++◌, IfErr, IfSome, OnErr, OnOk};
ghost use Rattle.raft_accessor.specs.Common.{Append, Rewrite, other, live_in, live_in_all, AreCountsOf, IsTableJoined};

use crate::accessor::{MemTableAccessor, slot_of};
use crate::boxed_table::BoxedTable;
use raft_base::{AllocResult, Error, LogQueue, Result};
use raft_table::Mark;

impl MemTableAccessor {
    /// Puts the newer table of the region `id`, or its absence, over the older one that stands here, as the
    /// newer region mark `mark` says. Returns two indexes: that of the first older entry, and the one after
    /// the last older entry that the mark's first run meets. Each is 0 if there is no such entry.
    ///
    /// # Errors
    ///
    /// Those of [`MemTable::join_under`](raft_table::MemTable::join_under); `Memory`. `newer` is dropped
    /// then, and the counts still agree with the tables.
    #[doc(hidden)]
    pub fn join_table(
        &mut self,
        queue: LogQueue,
        id: u64,
        newer: Option<BoxedTable>,
        mark: &Mark,
    ) -> Result<(u64, u64)>
        requires region { IfSome newer (λ t. t.region_id ≡ id) }
        requires own { live_in (other queue) newer ≡ 0 }
        requires older { queue ≡ Rewrite → live_in_all Append self.old.tables ≡ 0 }
        ensures joined { IsTableJoined queue mark.now newer self.old.tables id self.old.counts
            result self.new.tables self.new.counts }
        ensures exact_counts { AreCountsOf self.old.tables self.old.counts }
        ensures cleaned { self.new.cleaned ≡ self.old.cleaned }
    {
        self.slots[slot_of(id)].join_table(queue, id, newer, mark, &mut self.stats)
    }

    /// Reserves memory in the slot numbered `slot`, below 128, so that it can hold `count` tables, with those
    /// that it has.
    ///
    /// # Errors
    ///
    /// `AllocError` if there is no memory. The tables are the same in either case.
    #[doc(hidden)]
    pub fn make_room(&mut self, slot: usize, count: usize) -> AllocResult<()>
        requires { slot < 128 }
        ensures { self.new ≡ self.old }
    {
        self.slots[slot].make_room(count)
    }

    /// Moves the cleaned regions of `rhs` to the end of this accessor's list. That of `rhs` is empty then; its
    /// tables stay with it.
    ///
    /// # Errors
    ///
    /// `Memory` alone. Both lists are unchanged then.
    #[doc(hidden)]
    pub fn append_cleaned(&mut self, rhs: &mut MemTableAccessor) -> Result<()>
        ensures ok { OnOk result (self.new.cleaned ≡ self.old.cleaned ++ rhs.old.cleaned) }
        ensures tables { self.new.tables ≡ self.old.tables }
        ensures counts { self.new.counts ≡ self.old.counts }
        ensures left { rhs.new.tables ≡ rhs.old.tables }
        ensures err { OnErr result ((self.new.cleaned ≡ self.old.cleaned) × (rhs.new ≡ rhs.old)) }
        ensures memory { IfErr result (λ e. e ≡ Error.Memory) }
    {
        self.cleaned.append(&mut rhs.cleaned)?;
        Ok(())
    }
}
