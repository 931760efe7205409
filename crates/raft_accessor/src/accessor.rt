//! The tables of all regions.

ghost use Rattle.std.specs.Prelude.{◌≡◌, ◌≢◌, ◌≤◌, ◌<◌, ◌^◌, ◌+◌, ◌⊎◌, ◌↔◌, List, [], ◌∷◌, ◌++◌, map, replicate, IsPermutation, IsTrue, OnOk, OnErr, IfOk, IfErr, IfSome, Some, None, option_map, is_some, length, if◌then◌else◌};
ghost use Rattle.raft_accessor.specs.Common.{FoldsTo, LogQueue, total, after_change, AreCountsAfter, IsAllowed, IsAnswer, IsChangeFault, Table, with_table_added, with_table_deleted, live_of, slot_of, table_in, live_in_all, AreCountsOf};
ghost use Rattle.raft_accessor.specs.Common.{IsTableChanged, IsTableMade, IsTableTaken, lent_as, with_newer, with_appended, AreTablesMerged, AreTablesLeft, AreOthersLeft, AreMerged, IsMergedIn, IsNewerFault, IsAppendedFault};
ghost use Rattle.raft_accessor.specs.Common.{IsMergeRefusal, Collects, Makes};
ghost use Rattle.std.specs.FinMap as finite;

mod cleaned;
mod join;
mod region_steps;
mod take_slot;
mod writes;

use crate::boxed_table::{BoxedTable, unbox_table};
use crate::neighbor::Neighbor;
use crate::region_tables::RegionTables;
pub use cleaned::clean_logs;
use raft_base::{AllocResult, Error, FileSeq, LogQueue, Result, hash_u64};
use raft_table::{GlobalStats, MemTable, TableChange};
use std::alloc::{AllocError, Global};
use std::marker::Model;
pub use writes::accepted_items_lack_room_alone;

/// Returns the number of the slot, from 0 to 127, that holds the table of the region `id`: the low 7 bits of
/// the hash of its id.
#[tactic(auto, unfolding(crate::specs::Accessor::slot_of))]
pub fn slot_of(id: u64) -> usize
    ensures value { result ≡ slot_of id }
    ensures bound { result < 128 }
{
    (hash_u64(id) % 128) as usize
}

/// Returns the lent table of `table`, its `AllocError` turned into `Memory`.
///
/// # Errors
///
/// `Memory` if `table` is an error.
fn to_memory_error<'a>(table: AllocResult<&'a MemTable>) -> Result<&'a MemTable>
    ensures { result ≡ lent_as table.entry }
{
    table.map_err(|_| Error::Memory)
}

/// The tables of all regions, how many of their records are live, and a list of the regions that were
/// cleaned. The tables stand in 128 hash maps (slots), by the hash of their region's id.
#[derive(Drop)]
pub struct MemTableAccessor {
    /// The tables of the 128 slots, slot n at index n.
    slots: Vec<RegionTables>,
    /// How many records of all tables are live in each queue.
    stats: GlobalStats,
    /// The ids of the regions that were cleaned, in order.
    cleaned: Vec<u64>,
}

impl Model for MemTableAccessor {
    ghost use Rattle.raft_accessor.specs.Accessor.{Accessor};
    ghost use Rattle.raft_accessor.specs.AccessorCode.{accessor_code};

    ghost Value = { Accessor };

    ghost coded = { accessor_code };

    ghost use Rattle.raft_accessor.specs.AccessorView.{accessor_shown, IsAccessorKept};

    ghost view = { accessor_shown };

    ghost invariant = { IsAccessorKept };
}

impl MemTableAccessor {
    ghost use Rattle.std.specs.Prelude.{⊤};
    ghost use Rattle.std.specs.Borrow.{sem};
    ghost use mathlib.Core.Option.{none};
    ghost use denote.Follow.{follows_so};
    ghost use Rattle.raft_accessor.specs.contracts.accessor.MemTableAccessor.{the_row};

    /// Returns an accessor without tables, cleaned regions and live records.
    ///
    /// # Errors
    ///
    /// `Memory` alone.
    pub fn new(alloc: Global) -> Result<MemTableAccessor>
        ensures tables { IfOk result (λ accessor. accessor.tables ≡ finite.empty) }
        ensures cleaned { IfOk result (λ accessor. accessor.cleaned ≡ []) }
        ensures counts { IfOk result (λ accessor. accessor.counts
            ≡ record { append = 0; written = 0; deleted = 0 }) }
        ensures memory { IfErr result (λ e. e ≡ Error.Memory) }
    {
        Ok(MemTableAccessor {
            slots: empty_slots(alloc)?,
            stats: GlobalStats::default(),
            cleaned: Vec::new(alloc),
        })
    }

    /// Returns how many records of all tables are live in each queue.
    pub fn stats(&self) -> &GlobalStats
        ensures { result.now ≡ self.now.counts }
    {
        &self.stats
    }

    /// States that the live counts are those of the tables. This is a law: it computes nothing.
    pub fn counts_are_exact(&self)
        ensures { AreCountsOf self.now.tables self.now.counts }
    {
        let _ = &self.stats;
    }

    /// Returns the table of the region `id`, or `None` if it has none.
    pub fn get(&self, id: u64) -> Option<&MemTable>
        ensures value { option_map (λ t. t.now) result ≡ finite.get self.now.tables id }
        ensures own { IfSome result (λ t. t.now.region_id ≡ id) }
    {
        self.slots[slot_of(id)].get(id)
    }

    /// Returns the table of the region `id`, for which an empty one is made first if it has none.
    ///
    /// # Errors
    ///
    /// `Memory` alone. The tables are unchanged then.
    pub fn get_or_insert(&mut self, id: u64) -> Result<&MemTable>
        ensures* ends { sem 𝓛 (follows_so the_row the_row self.entry.ghost_name none (λ _ _. ⊤)
            (λ new. IsTableMade id result self.old new)) }
        ensures table { IfOk result (λ t. t.now ≡ table_in self.old.tables id) }
        ensures memory { IfErr result (λ e. e ≡ Error.Memory) }
    {
        to_memory_error(self.lend_or_make(id))
    }

    /// Returns the table of the region `id`, and makes an empty one if it has none, as
    /// [`MemTableAccessor::get_or_insert`] does. It fails with `AllocError`, since that type owns no memory:
    /// only for such an error can the clause `ends` be proved, which says what the accessor is once the
    /// borrow of the table ends.
    ///
    /// # Errors
    ///
    /// `AllocError` if there is no memory. The tables are unchanged then.
    fn lend_or_make(&mut self, id: u64) -> AllocResult<&MemTable>
        ensures* ends { sem 𝓛 (follows_so the_row the_row self.entry.ghost_name none (λ _ _. ⊤)
            (λ new. IsTableMade id result self.old new)) }
        ensures table { IfOk result (λ t. t.now ≡ table_in self.old.tables id) }
    {
        self.alloc_if_missing(id)?;
        Ok(self.existing_table(id))
    }

    /// Makes an empty table for the region `id`, unless it has one. Its error owns no memory, as
    /// [`MemTableAccessor::lend_or_make`] needs it.
    ///
    /// # Errors
    ///
    /// `AllocError` if there is no memory. The tables are unchanged then.
    fn alloc_if_missing(&mut self, id: u64) -> AllocResult<()>
        ensures { IsTableMade id result self.old self.new }
    {
        self.make_if_missing(id).map_err(|_| AllocError)
    }

    /// Returns the table of the region `id`, which has one.
    fn existing_table(&self, id: u64) -> &MemTable
        requires { IsTrue (is_some (finite.get self.now.tables id)) }
        ensures { result.now ≡ table_in self.now.tables id }
    {
        match self.get(id) {
            Some(table) => table,
            None => unreachable!(),
        }
    }

    /// Makes an empty table for the region `id`, unless it has one.
    ///
    /// # Errors
    ///
    /// `Memory` alone. The tables are unchanged then.
    fn make_if_missing(&mut self, id: u64) -> Result<()>
        ensures changed { IsTableChanged (Some (table_in self.old.tables id)) (λ e. ⊥) id result
            self.old self.new }
        ensures counts { self.new.counts ≡ self.old.counts }
    {
        self.slots[slot_of(id)].make_if_missing(id, &mut self.stats)
    }

    /// Makes one change of the table of the region `id`, for which an empty one is made first if it has none.
    /// Returns how many entries a compaction or a truncation dropped, and 0 for any other change.
    ///
    /// # Errors
    ///
    /// Those of [`MemTable::change`]; `Memory`. Tables and counts are unchanged then, and no table has been
    /// made.
    pub fn change(&mut self, id: u64, change: TableChange) -> Result<u64>
        ensures changed { IsTableChanged (after_change (table_in self.old.tables id) change)
            (IsChangeFault (table_in self.old.tables id) self.old.counts change) id result self.old
            self.new }
        ensures answer { IfOk result (IsAnswer change (table_in self.old.tables id)
            (table_in self.new.tables id)) }
        ensures allowed { OnOk result (IsAllowed change) }
        ensures counts { OnOk result
            (AreCountsAfter change (table_in self.old.tables id) self.old.counts self.new.counts) }
    {
        self.slots[slot_of(id)].change(id, change, &mut self.stats)
    }

    /// Sets the first and the last file of the atomic group of the region `id` in the rewrite queue to
    /// `start` and `end`, of which `start` is the lesser or the same. If the region has no table, an empty
    /// one is made first. Call it for each region that a group names, once the End of the group is written
    /// ([`MemTable::apply_rewrite_atomic_group`] says why).
    ///
    /// # Errors
    ///
    /// `Memory` alone. The tables are unchanged then.
    pub fn apply_rewrite_atomic_group(
        &mut self,
        id: u64,
        start: FileSeq,
        end: FileSeq,
    ) -> Result<()>
        requires { start ≤ end }
        ensures changed { IsTableChanged (Some (record (table_in self.old.tables id)
            { atomic_group = Some (start, end) }))
            (λ e. ⊥) id result self.old self.new }
        ensures counts { self.new.counts ≡ self.old.counts }
    {
        self.slots[slot_of(id)].apply_rewrite_atomic_group(id, start, end, &mut self.stats)
    }

    /// Puts `table` under its region's id `id`, and counts its records as live. Returns the table that it
    /// replaces, whose records are no longer counted, or `None` if there was none.
    ///
    /// # Errors
    ///
    /// `Full` if a queue would have more than 2^64 - 1 live records, those of the replaced table counted too;
    /// `Memory`. Tables and counts are unchanged then, and `table` is dropped.
    pub fn insert(&mut self, id: u64, table: MemTable) -> Result<Option<MemTable>>
        requires { table.region_id ≡ id }
        ensures ok { OnOk result (self.new.tables ≡ finite.insert self.old.tables id table) }
        ensures replaced { IfOk result (λ t. t ≡ finite.get self.old.tables id) }
        ensures counts { OnOk result (self.new.counts
            ≡ with_table_deleted (table_in self.old.tables id)
            (with_table_added table self.old.counts)) }
        ensures err { OnErr result (self.new.tables ≡ self.old.tables) }
        ensures counts_err { OnErr result (self.new.counts ≡ self.old.counts) }
        ensures fault { IfErr result (λ e. (e ≡ Error.Memory)
            ⊎ ((e ≡ Error.Full)
            × ((q : LogQueue) × (2 ^ 64 ≤ live_in_all q self.old.tables + live_of q table)))) }
        ensures cleaned { self.new.cleaned ≡ self.old.cleaned }
    {
        self.slots[slot_of(id)].insert(id, table, &mut self.stats)
    }

    /// Removes the table of the region `id` and returns it, or `None` if there is none. Its records are
    /// subtracted from the live counts. With `record_tombstone` the region is also appended to the cleaned
    /// regions, even if it has no table.
    ///
    /// # Errors
    ///
    /// `Memory`, which can come only with `record_tombstone`. The accessor is unchanged then.
    pub fn remove(&mut self, id: u64, record_tombstone: bool) -> Result<Option<MemTable>>
        ensures tables { OnOk result (self.new.tables ≡ finite.remove self.old.tables id) }
        ensures removed { IfOk result (λ t. t ≡ finite.get self.old.tables id) }
        ensures counts { OnOk result
            (self.new.counts ≡ with_table_deleted (table_in self.old.tables id) self.old.counts) }
        ensures cleaned { OnOk result (self.new.cleaned
            ≡ (if record_tombstone then self.old.cleaned ++ id ∷ [] else self.old.cleaned)) }
        ensures err { OnErr result (self.new ≡ self.old) }
        ensures fault { IfErr result (λ e. (e ≡ Error.Memory) × IsTrue record_tombstone) }
    {
        if record_tombstone {
            self.push_cleaned(id)?;
        }
        Ok(unbox_table(self.take(id)))
    }

    /// Merges each table of `rhs` into the table of its region, as [`MemTable::merge_newer_neighbor`] does:
    /// `rhs` has what comes directly after these tables in the same queue. A region without a table gets an
    /// empty one first. The list of cleaned regions of `rhs` is dropped.
    ///
    /// # Errors
    ///
    /// Those of [`MemTable::merge_newer_neighbor`], for the first table that is refused. Each other table is
    /// merged or unchanged then. The refused one is unchanged unless the error is `Memory`. What is left of
    /// `rhs` is dropped, and the counts still agree with the tables.
    pub fn merge_newer_neighbor(&mut self, rhs: MemTableAccessor) -> Result<()>
        ensures ok { OnOk result (AreTablesMerged with_newer self.old.tables rhs.tables
            self.new.tables) }
        ensures fault { IfErr result (IsMergeRefusal (IsNewerFault self.new.counts) self.old.tables
            rhs.tables) }
        ensures err { IfErr result (λ e. e ≢ Error.Memory
            → AreTablesLeft with_newer self.old.tables rhs.tables self.new.tables) }
        ensures others { OnErr result (AreOthersLeft with_newer self.old.tables rhs.tables
            self.new.tables) }
        ensures cleaned { self.new.cleaned ≡ self.old.cleaned }
    {
        self.merge_neighbors(Neighbor::Newer, rhs)
    }

    /// Merges each table of `rhs`, which are those of the append queue, into the rewritten table of its
    /// region, as [`MemTable::merge_append_table`] does. A region without a table gets an empty one first.
    /// The list of cleaned regions of `rhs` is dropped.
    ///
    /// # Errors
    ///
    /// Those of [`MemTable::merge_append_table`], for the first table that is refused. Each other table is
    /// merged or unchanged then. The refused one is unchanged unless the error is `Memory`. What is left of
    /// `rhs` is dropped, and the counts still agree with the tables.
    pub fn merge_append_table(&mut self, rhs: MemTableAccessor) -> Result<()>
        ensures ok { OnOk result (AreTablesMerged with_appended self.old.tables rhs.tables
            self.new.tables) }
        ensures fault { IfErr result (IsMergeRefusal (IsAppendedFault self.new.counts)
            self.old.tables rhs.tables) }
        ensures err { IfErr result (λ e. e ≢ Error.Memory
            → AreTablesLeft with_appended self.old.tables rhs.tables self.new.tables) }
        ensures others { OnErr result (AreOthersLeft with_appended self.old.tables rhs.tables
            self.new.tables) }
        ensures cleaned { self.new.cleaned ≡ self.old.cleaned }
    {
        self.merge_neighbors(Neighbor::Appended, rhs)
    }

    /// Tests whether no region has a table.
    pub fn is_empty(&self) -> bool
        ensures { IsTrue result ↔ (self.now.tables ≡ finite.empty) }
    {
        for slot in &self.slots {
            if !slot.is_empty() {
                return false;
            }
        }
        true
    }

    /// Calls `f` with `init` and a table, then with what it returned and the next table, and so on, once for
    /// each table, in no set order. Returns what the last call returned, or `init` if there are no tables.
    pub fn fold<B: Drop, F: FnMut(B, &MemTable) -> B>(&self, init: B, mut f: F) -> B
    where
        F: Drop,
        requires { (state : F) (x : _) (t : _) → F.pre state x t }
        ensures { (ts : List Table) × (last : F) × IsPermutation ts (finite.values self.now.tables)
            × FoldsTo (Makes F.FnMut) (f, init) ts (last, result) }
    {
        let mut answer = init;
        for slot in &self.slots {
            answer = slot.fold(answer, &mut f);
        }
        answer
    }

    /// Returns all tables, in no set order.
    ///
    /// # Errors
    ///
    /// `Memory` alone.
    pub fn tables(&self) -> Result<Vec<&MemTable>>
        ensures tables { IfOk result (λ tables. IsPermutation (map (λ t. t.now) tables.items)
            (finite.values self.now.tables)) }
        ensures memory { IfErr result (λ e. e ≡ Error.Memory) }
    {
        let all = |_: &MemTable| -> bool
            ensures { IsTrue result }
        { true };
        self.collect(all)
    }

    /// Returns the tables for which `f` returns true, in no set order. `f` is called once with each table.
    ///
    /// # Errors
    ///
    /// `Memory` alone.
    pub fn collect<F: FnMut(&MemTable) -> bool>(&self, mut f: F) -> Result<Vec<&MemTable>>
        requires { F.IsAlwaysCallable f }
        ensures ok { IfOk result (λ kept. (ts : List Table) × (last : F)
            × IsPermutation ts (finite.values self.now.tables)
            × FoldsTo (Collects F.FnMut) (f, []) ts (last, map (λ t. t.now) kept.items)) }
        ensures memory { IfErr result (λ e. e ≡ Error.Memory) }
    {
        let mut kept = Vec::new(*self.cleaned.allocator());
        for slot in &self.slots {
            slot.push_matching(&mut f, &mut kept)?;
        }
        Ok(kept)
    }

    /// Returns two totals over all tables: how many entries they have, and how many keys with a value.
    pub fn totals(&self) -> (u128, u128)
        ensures entries { result.0 ≡ total (λ (t : Table). length t.entries) self.now.tables }
        ensures keys { result.1 ≡ total (λ (t : Table). finite.len t.keys) self.now.tables }
    {
        let records = self.stats.live_entries(LogQueue::Append) as u128
            + self.stats.live_entries(LogQueue::Rewrite) as u128;
        let mut entries = 0;
        for slot in &self.slots {
            entries += slot.entries_count();
        }
        (entries, records - entries)
    }

    /// Removes the table of the region `id` and returns it in its box, or `None` if there is none. Its
    /// records are subtracted from the live counts.
    #[doc(hidden)]
    pub fn take(&mut self, id: u64) -> Option<BoxedTable>
        ensures taken { IsTableTaken id result self.old self.new }
    {
        self.slots[slot_of(id)].remove_boxed(id, &mut self.stats)
    }

    /// Merges each table of `rhs` into the table of its region, which is made if there is none. `kind` says
    /// what they are: newer ones of the same queue, or those of the append queue over rewritten ones.
    ///
    /// # Errors
    ///
    /// Those of [`MemTable::merge_newer_neighbor`] or [`MemTable::merge_append_table`], for the first table
    /// that is refused. Each other table is merged or unchanged then, and what is left of `rhs` is dropped.
    fn merge_neighbors(&mut self, kind: Neighbor, rhs: MemTableAccessor) -> Result<()>
        ensures { AreMerged kind self.old rhs.tables result self.new }
    {
        for slot in rhs.slots {
            self.merge_slot(kind, slot)?;
        }
        Ok(())
    }

    /// Merges each table of one slot, `newer`, into the table of its region, as `kind` says.
    ///
    /// # Errors
    ///
    /// Those of [`merge_neighbors`](MemTableAccessor::merge_neighbors). Some tables are merged then, and what
    /// is left of `newer` is dropped.
    fn merge_slot(&mut self, kind: Neighbor, newer: RegionTables) -> Result<()>
        ensures { AreMerged kind self.old newer result self.new }
    {
        for (id, table) in newer.into_entries() {
            self.merge_table(kind, id, table)?;
        }
        Ok(())
    }

    /// Merges `newer`, a table of the region `id`, into the table of that region, as `kind` says. If the
    /// region has none, an empty one is made first.
    ///
    /// # Errors
    ///
    /// Those of [`merge_neighbors`](MemTableAccessor::merge_neighbors). The table of the region is unchanged
    /// then, unless the error is `Memory`. `newer` is dropped.
    fn merge_table(&mut self, kind: Neighbor, id: u64, newer: BoxedTable) -> Result<()>
        requires { newer.region_id ≡ id }
        ensures { IsMergedIn kind id newer self.old result self.new }
    {
        self.slots[slot_of(id)].merge_neighbor(kind, id, newer, &mut self.stats)
    }
}

/// Returns 128 slots without tables.
///
/// # Errors
///
/// `Memory` alone.
fn empty_slots(alloc: Global) -> Result<Vec<RegionTables>>
    ensures ok { IfOk result (λ slots. slots.items ≡ replicate 128 finite.empty) }
    ensures memory { IfErr result (λ e. e ≡ Error.Memory) }
{
    let mut slots = Vec::with_capacity(alloc, 128)?;
    for _ in 0..128usize {
        slots.push(RegionTables::new(alloc))?;
    }
    Ok(slots)
}
