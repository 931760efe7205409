//! The tables of all regions, which several threads use at the same time.

ghost use Rattle.std.specs.Prelude.{◌≡◌, ◌≢◌, ◌⊎◌, ◌≤◌, ◌<◌, ℕ, List, [], ◌++◌, length, map, Some, None, IsTrue, OnOk, IfOk, IfErr, IfSome};
ghost use Rattle.raft_shared.specs.Common.{AllByRecursion, FoldsTo, FnOnceReturnsAt, Drains, Yields, IsFinite, write_guard_value, LogItem, item_of, is_open, TableChange, Table, slot_of, table_in, AreCountsOf, IsSlotTable, HaveShares};
ghost use Rattle.raft_shared.specs.Common.{AreSlotTablesAdded, KeepsId, Makes, IsChangeAnswer, IsChangeRefusal, IsLockFault, IsNumberOf, IsRefusalOf, HasCleans, MayBeWritten, IsSharedItemFault, IsLastRefused, Appending, Rewriting};
ghost use Rattle.raft_shared.specs.Common.{writing_shown};
ghost use Rattle.std.specs.FinMap as finite;

use crate::slot::Slot;
use raft_accessor::{MemTableAccessor, Writing, slot_of};
use raft_base::{Error, FileSeq, LogQueue, Result};
use raft_records::{LogBatch, LogItem};
use raft_table::{MemTable, TableChange};
use std::alloc::Global;
use std::sync::{RwLock, RwLockWriteGuard, Wait};

/// The tables of all regions in 128 slots, each under a lock of its own. A call holds one lock at a time, and
/// takes it anew for each item that it writes. A walk over all slots goes slot by slot, so it may see a part
/// of what other threads write meanwhile.
#[derive(Drop)]
pub struct SharedAccessor {
    /// The slots, slot n at index n.
    slots: [RwLock<Slot>; 128],
    alloc: Global,
}

impl SharedAccessor {
    /// Returns an accessor of 128 slots without tables. It allocates nothing yet.
    pub fn new(alloc: Global) -> SharedAccessor {
        SharedAccessor {
            slots: std::array::from_fn(
                |number: usize| -> RwLock<Slot>
                    requires { number < 128 }
                { RwLock::new(Slot::new(alloc, number)) },
            ),
            alloc,
        }
    }

    /// Returns an accessor with the tables, the live counts and the cleaned regions of `core`.
    ///
    /// # Errors
    ///
    /// `Memory` alone. The tables are dropped then.
    pub fn from_core(alloc: Global, core: MemTableAccessor) -> Result<SharedAccessor>
        ensures { IfErr result (λ e. e ≡ Error.Memory) }
    {
        let slots = divide_among_slots(alloc, core)?;
        let mut shared = SharedAccessor::new(alloc);
        for (lock, slot) in shared.slots.iter_mut().zip(slots) {
            *lock.get_mut() = slot;
        }
        Ok(shared)
    }

    /// Returns the tables, the live counts and the cleaned regions in one accessor, the opposite of
    /// [`SharedAccessor::from_core`]. The cleaned regions are in order within each slot, not among slots.
    ///
    /// # Errors
    ///
    /// `Memory`; `Full` if a queue has more than 2^64 - 1 live records in all slots together; `Failed` if a
    /// slot has another number than its place, which never happens. The tables are dropped then.
    pub fn into_core(self) -> Result<MemTableAccessor>
        ensures exact_counts { IfOk result (λ core. AreCountsOf core.tables core.counts) }
        ensures fault { IfErr result (λ e. IsLockFault e ⊎ (e ≡ Error.Full)) }
    {
        let mut shared = self;
        let mut core = MemTableAccessor::new(shared.alloc)?;
        for slot in &mut shared.slots {
            move_slot_into(slot.get_mut(), shared.alloc, &mut core)?;
        }
        core.counts_are_exact();
        Ok(core)
    }

    /// Calls `f` with the table of the region `id`, under the lock of its slot for reading, and returns what
    /// `f` returns. Returns `None`, without a call, if the region has no table.
    pub fn with_table<X: Drop, F: FnOnce(&MemTable) -> X, R: Wait>(
        &self,
        rt: &R,
        id: u64,
        f: F,
    ) -> Option<X>
    where
        F: Drop,
        requires { F.IsAlwaysCallable f }
        ensures { IfSome result
            (λ x. (t : Table) × IsSlotTable (slot_of id) id t × FnOnceReturnsAt F.FnOnce f t x) }
    {
        let number = slot_of(id);
        let slot = self.slots[number].read(rt);
        if slot.number() != number {
            return None;
        }
        call_with_table(&slot, id, f)
    }

    /// Calls `f` with the table of the region `id`, or with an empty one if it has none, and makes the change
    /// that `f` returns, all under the lock of its slot for writing. A table that isn't there is made for the
    /// change. Returns how many entries a compaction or a truncation dropped, and 0 for any other change.
    ///
    /// # Errors
    ///
    /// Those of [`Slot::change`]; `Failed` if the slot has another number, which never happens. The tables
    /// are unchanged then.
    pub fn with_table_mut<F: FnOnce(&MemTable) -> TableChange, R: Wait>(
        &self,
        rt: &R,
        id: u64,
        f: F,
    ) -> Result<u64>
    where
        F: Drop,
        requires { F.IsAlwaysCallable f }
        ensures number { IfOk result (IsChangeAnswer F.FnOnce f id) }
        ensures fault { IfErr result (IsChangeRefusal F.FnOnce f id) }
    {
        make_asked_change(&mut *self.lock_slot(rt, id)?, self.alloc, id, f)
    }

    /// Makes one change of the table of the region `id`, for which an empty one is made first if it has none.
    /// Returns how many entries a compaction or a truncation dropped, and 0 for any other change.
    ///
    /// # Errors
    ///
    /// Those of [`Slot::change`]; `Failed` if the slot has another number, which never happens. The tables
    /// are unchanged then.
    #[tactic(auto, using(crate::proofs::SharedLemmas::number_of, crate::proofs::SharedLemmas::refusal_of))]
    pub fn change<R: Wait>(&self, rt: &R, id: u64, change: TableChange) -> Result<u64>
        ensures number { IfOk result (IsNumberOf change id) }
        ensures fault { IfErr result (IsRefusalOf change id) }
    {
        self.with_table_mut(
            rt,
            id,
            move |_: &MemTable| -> TableChange
                ensures { result ≡ change }
            { change },
        )
    }

    /// Makes an empty table for the region `id`, unless it has one. Unlike the call of this name of an
    /// accessor it returns no table: [`SharedAccessor::with_table`] shows it.
    ///
    /// # Errors
    ///
    /// `Memory`; `Failed` if the slot has another number, which never happens. The tables are unchanged then.
    pub fn get_or_insert<R: Wait>(&self, rt: &R, id: u64) -> Result<()>
        ensures { IfErr result IsLockFault }
    {
        self.lock_slot(rt, id)?.get_or_insert(id)
    }

    /// Puts `table` under its region's id `id`, and counts its records as live. Returns the table that it
    /// replaces, whose records are no longer counted, or `None` if there was none.
    ///
    /// # Errors
    ///
    /// Those of [`Slot::insert`]; `Failed` if the slot has another number, which never happens. The tables
    /// are unchanged then, and `table` is dropped.
    pub fn insert<R: Wait>(&self, rt: &R, id: u64, table: MemTable) -> Result<Option<MemTable>>
        requires { table.region_id ≡ id }
        ensures handed_back { IfOk result (λ t. IfSome t (IsSlotTable (slot_of id) id)) }
        ensures fault { IfErr result (λ e. IsLockFault e ⊎ (e ≡ Error.Full)) }
    {
        self.lock_slot(rt, id)?.insert(id, table)
    }

    /// Removes the table of the region `id` and returns it, or `None` if there is none. Its records are
    /// subtracted from the live counts. With `record_tombstone` the region is also listed as cleaned, even if
    /// it has no table.
    ///
    /// # Errors
    ///
    /// `Memory`, which can come only with `record_tombstone`; `Failed` if the slot has another number, which
    /// never happens. Nothing has changed then.
    pub fn remove<R: Wait>(
        &self,
        rt: &R,
        id: u64,
        record_tombstone: bool,
    ) -> Result<Option<MemTable>>
        ensures handed_back { IfOk result (λ t. IfSome t (IsSlotTable (slot_of id) id)) }
        ensures fault { IfErr result
            (λ e. ((e ≡ Error.Memory) × IsTrue record_tombstone) ⊎ (e ≡ Error.Failed)) }
    {
        self.lock_slot(rt, id)?.remove(id, record_tombstone)
    }

    /// Sets the first and the last file of the atomic group of the region `id` in the rewrite queue to
    /// `start` and `end`, of which `start` is the lesser or the same. If the region has no table, an empty
    /// one is made first. Call it for each region that a group names, once the End of the group is written
    /// ([`MemTable::apply_rewrite_atomic_group`] says why).
    ///
    /// # Errors
    ///
    /// `Memory`; `Failed` if the slot has another number, which never happens. The tables are unchanged then.
    pub fn apply_rewrite_atomic_group<R: Wait>(
        &self,
        rt: &R,
        id: u64,
        start: FileSeq,
        end: FileSeq,
    ) -> Result<()>
        requires { start ≤ end }
        ensures { IfErr result IsLockFault }
    {
        self.lock_slot(rt, id)?
            .apply_rewrite_atomic_group(id, start, end)
    }

    /// Writes `items`, new ones of the append queue, to the tables of their regions, in order. They must come
    /// to an end. The lock of a slot is taken anew for each item.
    ///
    /// # Errors
    ///
    /// Those of [`Slot::apply_append_write`] for the first item that is refused; `Failed` if a slot has
    /// another number, which never happens. The items before it are written then; it and those after it are
    /// not.
    pub fn apply_append_writes<I: IntoIterator<Item = LogItem>, R: Wait>(
        &self,
        rt: &R,
        items: I,
    ) -> Result<()>
        requires { (it : I.IntoIter) → I.into_iter_gives items it
            → I.IntoIter.can_next it × IsFinite (I.IntoIter.remaining it) }
        ensures ok { OnOk result ((it : I.IntoIter) × (xs : List LogItem)
            × I.into_iter_gives items it × Drains I.IntoIter.next_gives it xs
            × AllByRecursion (MayBeWritten Appending) (map item_of xs)) }
        ensures refused { IfErr result (λ e. (it : I.IntoIter) × (xs : List LogItem)
            × (u : I.IntoIter) × I.into_iter_gives items it × Yields I.IntoIter.next_gives it xs u
            × IsLastRefused Appending (map item_of xs) e) }
    {
        self.write_items(rt, Writing::Appending, items)
    }

    /// Writes `items` to the tables of their regions, in order, as items that were rewritten to the file
    /// numbered `new_file` of the rewrite queue. They must come to an end. The lock of a slot is taken anew
    /// for each item. `watermark` limits what moves. With one, entries move whose file is numbered at or
    /// below it; without one, those that are rewritten already. A key value in an append file moves only with
    /// a watermark at or above that file, a rewritten one always.
    ///
    /// # Errors
    ///
    /// Those of [`Slot::apply_rewrite_write`] for the first item that is refused; `Failed` if a slot has
    /// another number, which never happens. The items before it are written then; it and those after it are
    /// not.
    pub fn apply_rewrite_writes<I: IntoIterator<Item = LogItem>, R: Wait>(
        &self,
        rt: &R,
        items: I,
        watermark: Option<FileSeq>,
        new_file: FileSeq,
    ) -> Result<()>
        requires { (it : I.IntoIter) → I.into_iter_gives items it
            → I.IntoIter.can_next it × IsFinite (I.IntoIter.remaining it) }
        ensures ok { OnOk result ((it : I.IntoIter) × (xs : List LogItem)
            × I.into_iter_gives items it × Drains I.IntoIter.next_gives it xs
            × AllByRecursion (MayBeWritten (Rewriting watermark new_file)) (map item_of xs)) }
        ensures refused { IfErr result (λ e. (it : I.IntoIter) × (xs : List LogItem)
            × (u : I.IntoIter) × I.into_iter_gives items it × Yields I.IntoIter.next_gives it xs u
            × IsLastRefused (Rewriting watermark new_file) (map item_of xs) e) }
    {
        self.write_items(rt, Writing::Rewriting(watermark, new_file), items)
    }

    /// Adds a `Clean` for each region that is listed as cleaned to `logs`, an open batch, and empties the
    /// lists, slot by slot.
    ///
    /// Write the batch to the rewrite queue, once the append queue is synced: a recovery would else bring
    /// back rewritten records of these regions. Other changes that take rewritten records away belong there
    /// too, but aren't listed here: compactions, truncations, deletions of keys, and each run that replaces
    /// entries, as a truncation at its first index.
    ///
    /// # Errors
    ///
    /// `Memory` alone. Each cleaned region is either still listed then or in the batch.
    pub fn take_cleaned_region_logs<R: Wait>(&self, rt: &R, logs: &mut LogBatch) -> Result<()>
        requires { logs.old.stage ≡ is_open }
        ensures logs { HasCleans logs.old logs.new }
        ensures memory { IfErr result (λ e. e ≡ Error.Memory) }
    {
        for slot in &self.slots {
            slot.write(rt).take_cleaned_region_logs(logs)?;
        }
        Ok(())
    }

    /// Tests whether no region has a table, slot by slot. Other threads may change tables meanwhile.
    pub fn is_empty<R: Wait>(&self, rt: &R) -> bool {
        for slot in &self.slots {
            if !slot.read(rt).is_empty() {
                return false;
            }
        }
        true
    }

    /// Calls `f` with `init` and a table, then with what it returned and the next table, and so on, in no set
    /// order. Returns what the last call returned, or `init` if there are no tables. The lock of a slot is
    /// held for reading while `f` is called with its tables.
    pub fn fold<B: Drop, F: FnMut(B, &MemTable) -> B, R: Wait>(
        &self,
        rt: &R,
        init: B,
        mut f: F,
    ) -> B
    where
        F: Drop,
        requires { (state : F) (x : _) (t : _) → F.pre state x t }
        ensures { (ts : List Table) × (last : F)
            × FoldsTo (Makes F.FnMut) (f, init) ts (last, result) }
    {
        let mut answer = init;
        for slot in &self.slots {
            answer = slot.read(rt).fold(answer, &mut f);
        }
        answer
    }

    /// Returns the ids of the regions for whose tables `f` returns true, in no set order. The lock of a slot
    /// is held for reading while `f` is called with its tables.
    ///
    /// # Errors
    ///
    /// `Memory` alone.
    pub fn collect<F: FnMut(&MemTable) -> bool, R: Wait>(
        &self,
        rt: &R,
        mut f: F,
    ) -> Result<Vec<u64>>
    where
        F: Drop,
        requires { (state : F) (x : _) → F.pre state x }
        ensures ok { IfOk result (λ ids. (ts : List Table) × (last : F)
            × FoldsTo (KeepsId F.FnMut) (f, []) ts (last, ids.items)) }
        ensures memory { IfErr result (λ e. e ≡ Error.Memory) }
    {
        let mut ids = Vec::new(self.alloc);
        for slot in &self.slots {
            slot.read(rt).push_ids(&mut f, &mut ids)?;
        }
        Ok(ids)
    }

    /// Returns how many records of all tables are live in `queue`, entries and key values, counted slot by
    /// slot. Other threads may change the counts meanwhile.
    pub fn live_entries<R: Wait>(&self, rt: &R, queue: LogQueue) -> u128 {
        let mut live: u128 = 0;
        for slot in &self.slots {
            live += slot.read(rt).stats().live_entries(queue) as u128;
        }
        live
    }

    /// Locks the slot of the region `id` for writing, and returns the guard. It waits until the lock is free.
    ///
    /// # Errors
    ///
    /// `Failed` if the slot has another number, which never happens: it is tested because a lock promises
    /// nothing of what it guards.
    fn lock_slot<R: Wait>(&self, rt: &R, id: u64) -> Result<RwLockWriteGuard<'_, Slot>>
        ensures number { IfOk result (λ slot. (write_guard_value slot).number ≡ slot_of id) }
        ensures fault { IfErr result (λ e. e ≡ Error.Failed) }
    {
        let number = slot_of(id);
        let slot = self.slots[number].write(rt);
        if slot.number() != number {
            return Err(Error::Failed);
        }
        Ok(slot)
    }

    /// Writes `items` to the tables of their regions, in order, as `how` says. They must come to an end.
    ///
    /// # Errors
    ///
    /// Those of [`write_item`](SharedAccessor::write_item) for the first item that is refused. The items
    /// before it are written then; it and those after it are not.
    #[inline(always)]
    fn write_items<I: IntoIterator<Item = LogItem>, R: Wait>(
        &self,
        rt: &R,
        how: Writing,
        items: I,
    ) -> Result<()>
        requires { (it : I.IntoIter) → I.into_iter_gives items it
            → I.IntoIter.can_next it × IsFinite (I.IntoIter.remaining it) }
        ensures ok { OnOk result ((it : I.IntoIter) × (xs : List LogItem)
            × I.into_iter_gives items it × Drains I.IntoIter.next_gives it xs
            × AllByRecursion (MayBeWritten (writing_shown how)) (map item_of xs)) }
        ensures refused { IfErr result (λ e. (it : I.IntoIter) × (xs : List LogItem)
            × (u : I.IntoIter) × I.into_iter_gives items it × Yields I.IntoIter.next_gives it xs u
            × IsLastRefused (writing_shown how) (map item_of xs) e) }
    {
        for item in items {
            self.write_item(rt, how, item)?;
        }
        Ok(())
    }

    /// Writes one item to the table of its region, as `how` says, under the lock of its slot for writing.
    ///
    /// # Errors
    ///
    /// Those of [`Slot::apply_append_write`] or [`Slot::apply_rewrite_write`]; `Failed` if the slot has
    /// another number, which never happens. The tables are unchanged then.
    #[inline(always)]
    fn write_item<R: Wait>(&self, rt: &R, how: Writing, item: LogItem) -> Result<()>
        ensures ok { OnOk result (MayBeWritten (writing_shown how) (item_of item)) }
        ensures fault { IfErr result (IsSharedItemFault (writing_shown how) (item_of item)) }
    {
        self.lock_slot(rt, item.raft_group_id)?
            .write_item(how, item)
    }
}

/// Divides the tables and the cleaned regions of `core` among 128 slots, and returns them, slot n at index n.
/// A region goes to the slot that [`slot_of`] names. Cleaned regions keep their order within a slot.
///
/// # Errors
///
/// `Memory` alone. The tables are dropped then.
fn divide_among_slots(alloc: Global, core: MemTableAccessor) -> Result<Vec<Slot>>
    ensures shares { IfOk result (λ slots. HaveShares core.tables core.cleaned 0 slots.items) }
    ensures all { IfOk result (λ slots. length slots.items ≡ 128) }
    ensures memory { IfErr result (λ e. e ≡ Error.Memory) }
{
    let mut core = core;
    let mut slots = divide_tables(alloc, &mut core)?;
    let ids = core.cleaned_regions();
    for id in ids {
        slots[slot_of(*id)].push_cleaned(*id)?;
    }
    Ok(slots)
}

/// Divides the tables of `core` among 128 slots, and returns them, slot n at index n. The cleaned regions
/// stay with `core`.
///
/// # Errors
///
/// `Memory` alone. Some of the tables are dropped then.
fn divide_tables(alloc: Global, core: &mut MemTableAccessor) -> Result<Vec<Slot>>
    ensures shares { IfOk result (λ slots. HaveShares core.old.tables [] 0 slots.items) }
    ensures all { IfOk result (λ slots. length slots.items ≡ 128) }
    ensures cleaned { core.new.cleaned ≡ core.old.cleaned }
    ensures memory { IfErr result (λ e. e ≡ Error.Memory) }
{
    let mut slots = Vec::with_capacity(alloc, 128)?;
    for number in 0..128usize {
        let mut slot = Slot::new(alloc, number);
        slot.take_tables(core);
        slots.push(slot)?;
    }
    Ok(slots)
}

/// Moves the tables of a slot into `core`, and appends the slot's cleaned regions to the list of `core`.
///
/// # Errors
///
/// `Memory`; `Full` if a queue would have more than 2^64 - 1 live records; `Failed` if the slot has a region
/// that belongs to another slot, which never happens. Some of the cleaned regions may be listed and some of
/// the tables moved then, and one table may be lost.
fn move_slot_into(slot: &mut Slot, alloc: Global, core: &mut MemTableAccessor) -> Result<()>
    ensures tables { OnOk result
        (AreSlotTablesAdded slot.old core.old.tables core.new.tables) }
    ensures cleaned { OnOk result
        (core.new.cleaned ≡ core.old.cleaned ++ slot.old.content.cleaned) }
    ensures fault { IfErr result (λ e. IsLockFault e ⊎ (e ≡ Error.Full)) }
{
    slot.holds_own_tables();
    list_cleaned(slot.number(), slot.cleaned_regions(), core)?;
    let mut ids = Vec::new(alloc);
    let mut all = |_: &MemTable| -> bool
        ensures { IsTrue result }
    { true };
    slot.push_ids(&mut all, &mut ids)?;
    for id in &ids {
        move_table(slot, *id, core)?;
    }
    Ok(())
}

/// Lists the regions `ids` as cleaned in `core`, in order, and removes the tables that they have there. They
/// are those that the slot numbered `number` lists.
///
/// # Errors
///
/// `Memory` alone. Some of them may be listed then.
fn list_cleaned(number: usize, ids: &[u64], core: &mut MemTableAccessor) -> Result<()>
    requires { AllByRecursion (λ id. slot_of id ≡ number) ids.now }
    ensures ok { OnOk result (core.new.cleaned ≡ core.old.cleaned ++ ids.now) }
    ensures none { OnOk result ((id : ℕ) → finite.get core.old.tables id ≡ None
        → finite.get core.new.tables id ≡ None) }
    ensures others { OnOk result ((id : ℕ) → slot_of id ≢ number
        → finite.get core.new.tables id ≡ finite.get core.old.tables id) }
    ensures memory { IfErr result (λ e. e ≡ Error.Memory) }
{
    for id in ids {
        core.remove(*id, true)?;
    }
    Ok(())
}

/// Moves the table of the region `id` out of a slot into `core`. Does nothing if the slot has none.
///
/// # Errors
///
/// `Memory`; `Full` if a queue would have more than 2^64 - 1 live records; `Failed` if the region belongs to
/// another slot, which never happens. The table may be lost then.
fn move_table(slot: &mut Slot, id: u64, core: &mut MemTableAccessor) -> Result<()>
    ensures moved { OnOk result ((t : Table) → finite.get slot.old.content.tables id ≡ Some t
        → core.new.tables ≡ finite.insert core.old.tables id t) }
    ensures nothing { OnOk result (finite.get slot.old.content.tables id ≡ None
        → core.new.tables ≡ core.old.tables) }
    ensures taken { OnOk result (slot.new.content.tables
        ≡ finite.remove slot.old.content.tables id) }
    ensures number { slot.new.number ≡ slot.old.number }
    ensures cleaned { core.new.cleaned ≡ core.old.cleaned }
    ensures fault { IfErr result (λ e. IsLockFault e ⊎ (e ≡ Error.Full)) }
{
    if slot.number() != slot_of(id) {
        return Err(Error::Failed);
    }
    if let Some(table) = slot.remove(id, false)? {
        core.insert(id, table)?;
    }
    Ok(())
}

/// Calls `f` with the table of the region `id` in `slot`, and returns what `f` returns. Returns `None`,
/// without a call, if the region has no table.
fn call_with_table<X: Drop, F: FnOnce(&MemTable) -> X>(slot: &Slot, id: u64, f: F) -> Option<X>
where
    F: Drop,
    requires callable { F.IsAlwaysCallable f }
    requires slot { slot_of id ≡ slot.now.number }
    ensures { IfSome result
        (λ x. (t : Table) × IsSlotTable (slot_of id) id t × FnOnceReturnsAt F.FnOnce f t x) }
{
    let table = slot.table(id)?;
    Some(f(table))
}

/// Makes the change that `f` returns for the table of the region `id` in `slot`, or for an empty one if it
/// has none. Returns how many entries a compaction or a truncation dropped, and 0 for any other change.
///
/// # Errors
///
/// Those of [`Slot::change`]. The slot is unchanged then.
fn make_asked_change<F: FnOnce(&MemTable) -> TableChange>(
    slot: &mut Slot,
    alloc: Global,
    id: u64,
    f: F,
) -> Result<u64>
where
    F: Drop,
    requires callable { F.IsAlwaysCallable f }
    requires slot { slot_of id ≡ slot.old.number }
    ensures number { IfOk result (IsChangeAnswer F.FnOnce f id) }
    ensures fault { IfErr result (IsChangeRefusal F.FnOnce f id) }
{
    let change = ask_for_change(slot, alloc, id, f);
    slot.change(id, change)
}

/// Calls `f` with the table of the region `id` in `slot`, or with an empty one if it has none, and returns
/// the change that `f` returns.
fn ask_for_change<F: FnOnce(&MemTable) -> TableChange>(
    slot: &Slot,
    alloc: Global,
    id: u64,
    f: F,
) -> TableChange
where
    F: Drop,
    requires callable { F.IsAlwaysCallable f }
    requires slot { slot_of id ≡ slot.now.number }
    ensures gave { FnOnceReturnsAt F.FnOnce f (table_in slot.now.content.tables id) result }
    ensures allowed { IsSlotTable (slot_of id) id (table_in slot.now.content.tables id) }
{
    match slot.table(id) {
        Some(table) => f(table),
        None => f(&MemTable::new(alloc, id)),
    }
}
