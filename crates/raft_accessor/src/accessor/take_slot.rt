//! The tables of one slot, or of each, taken out of those of all regions.

ghost use Rattle.std.specs.Prelude.{◌≡◌, ◌<◌, ◌^◌, length};
ghost use Rattle.raft_accessor.specs.Common.{IsSlotTaken, counts_of, with_all_deleted, together, AreSlots};
ghost use Rattle.std.specs.FinMap as finite;

use crate::accessor::MemTableAccessor;
use crate::region_tables::RegionTables;
use raft_table::GlobalStats;
use std::mem;

impl MemTableAccessor {
    /// Takes the tables of the slot numbered `number`, below 128, out of the accessor. Returns them, with
    /// live counts of their records alone, which are subtracted from those of the accessor. The list of
    /// cleaned regions stays. It allocates nothing.
    #[doc(hidden)]
    pub fn take_slot(&mut self, number: usize) -> (RegionTables, GlobalStats)
        requires { number < 128 }
        ensures taken { IsSlotTaken number self.old.tables self.new.tables result.0 }
        ensures counts { result.1 ≡ counts_of result.0 }
        ensures left { self.new.counts ≡ with_all_deleted result.0 self.old.counts }
        ensures cleaned { self.new.cleaned ≡ self.old.cleaned }
    {
        let none = RegionTables::new(*self.cleaned.allocator());
        let tables = mem::replace(&mut self.slots[number], none);
        let counts = tables.take_counts(&mut self.stats);
        (tables, counts)
    }

    /// Returns the tables of the 128 slots, slot n at index n.
    #[doc(hidden)]
    pub fn into_slots(self) -> Vec<RegionTables>
        ensures tables { together result.items ≡ self.tables }
        ensures slots { AreSlots 0 result.items }
        ensures all { length result.items ≡ 128 }
    {
        self.slots
    }

    /// Returns how many regions have a table.
    #[doc(hidden)]
    pub fn tables_count(&self) -> u128
        ensures value { result ≡ finite.len self.now.tables }
        ensures few { result < 2 ^ 72 }
    {
        let mut count = 0;
        for slot in &self.slots {
            count += slot.len() as u128;
        }
        count
    }
}
