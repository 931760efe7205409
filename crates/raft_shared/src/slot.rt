//! The tables of the regions of one slot.

ghost use Rattle.std.specs.Prelude.{◌≡◌, ◌≢◌, ◌≤◌, ◌<◌, ◌^◌, ◌+◌, ◌⊎◌, ◌↔◌, List, [], ◌∷◌, ◌++◌, map, IsPermutation, IsTrue, OnOk, OnErr, IfOk, IfErr, IfSome, Some, option_map, if◌then◌else◌};
ghost use Rattle.raft_shared.specs.Common.{FoldsTo, LogQueue, item_of, command_item, is_open, Clean, after_change, AreCountsAfter, IsAllowed, IsAnswer, IsChangeFault, Table, with_table_added, with_table_deleted, live_of, slot_of, table_in};
ghost use Rattle.raft_shared.specs.Common.{live_in_all, IsTableChanged, IsWritten, AreAcceptedOncePlaced, AreRefusedOncePlaced, IsAppendCheckFault, IsSlotTable, HoldsOwnTables, AreTablesTaken, KeepsId, Makes, Appending, Rewriting};
ghost use Rattle.raft_shared.specs.Common.{writing_shown};
ghost use Rattle.std.specs.FinMap as finite;

use raft_accessor::accessor::clean_logs;
use raft_accessor::{MemTableAccessor, RegionTables, Writing};
use raft_base::{Error, FileSeq, LogQueue, Result};
use raft_records::{LogBatch, LogItem};
use raft_table::{GlobalStats, MemTable, TableChange};
use std::alloc::Global;
use std::marker::Model;

/// The tables of the regions that belong to one slot, with their live counts and the list of those of them
/// that were cleaned. Its calls do to these regions what the calls of `MemTableAccessor` do to all. A call
/// may name only a region of this slot ([`slot_of`](raft_accessor::slot_of)).
#[derive(Drop)]
pub struct Slot {
    /// The number of the slot, from 0 to 127.
    number: usize,
    tables: RegionTables,
    /// How many records of the slot's tables are live in each queue.
    stats: GlobalStats,
    /// The ids of the slot's regions that were cleaned, in order.
    cleaned: Vec<u64>,
}

impl Model for Slot {
    ghost use Rattle.raft_shared.specs.Slot.{Slot};
    ghost use Rattle.raft_shared.specs.SlotCode.{slot_code};

    ghost Value = { Slot };

    ghost coded = { slot_code };

    ghost use Rattle.raft_shared.specs.SlotView.{slot_shown, IsSlotKept};

    ghost view = { slot_shown };

    ghost invariant = { IsSlotKept };
}

impl Slot {
    /// Returns the slot numbered `number`, below 128, without tables. It allocates nothing yet.
    pub fn new(alloc: Global, number: usize) -> Slot
        requires { number < 128 }
        ensures number { result.number ≡ number }
        ensures tables { result.content.tables ≡ finite.empty }
        ensures cleaned { result.content.cleaned ≡ [] }
        ensures counts { result.content.counts ≡ record { append = 0; written = 0; deleted = 0 } }
    {
        Slot {
            number,
            tables: RegionTables::new(alloc),
            stats: GlobalStats::default(),
            cleaned: Vec::new(alloc),
        }
    }

    /// Returns the number of the slot, from 0 to 127.
    pub fn number(&self) -> usize
        ensures { result ≡ self.now.number }
    {
        self.number
    }

    /// Returns the table of the region `id`, or `None` if it has none.
    pub fn table(&self, id: u64) -> Option<&MemTable>
        ensures value { option_map (λ t. t.now) result ≡ finite.get self.now.content.tables id }
        ensures allowed { IfSome result (λ t. IsSlotTable self.now.number id t.now) }
    {
        self.tables.get(id)
    }

    /// Tests whether no region of the slot has a table.
    pub fn is_empty(&self) -> bool
        ensures { IsTrue result ↔ (self.now.content.tables ≡ finite.empty) }
    {
        self.tables.is_empty()
    }

    /// Calls `f` with `init` and a table of the slot, then with what it returned and the next table, and so
    /// on, once for each table, in no set order. Returns what the last call returned, or `init` if there are
    /// no tables.
    pub fn fold<B: Drop, F: FnMut(B, &MemTable) -> B>(&self, init: B, f: &mut F) -> B
        requires { (state : F) (x : _) (t : _) → F.pre state x t }
        ensures { (ts : List Table) × IsPermutation ts (finite.values self.now.content.tables)
            × FoldsTo (Makes F.FnMut) (f.old, init) ts (f.new, result) }
    {
        self.tables.fold(init, f)
    }

    /// Appends the ids of the regions for whose tables `wanted` returns true to `ids`, in no set order.
    /// `wanted` is called once with each table of the slot.
    ///
    /// # Errors
    ///
    /// `Memory` alone. Some of the ids have been appended then.
    pub fn push_ids<F: FnMut(&MemTable) -> bool>(
        &self,
        wanted: &mut F,
        ids: &mut Vec<u64>,
    ) -> Result<()>
        requires { (state : F) (x : _) → F.pre state x }
        ensures ok { OnOk result ((ts : List Table)
            × IsPermutation ts (finite.values self.now.content.tables)
            × FoldsTo (KeepsId F.FnMut) (wanted.old, ids.old.items) ts
            (wanted.new, ids.new.items)) }
        ensures memory { IfErr result (λ e. e ≡ Error.Memory) }
    {
        self.tables.push_ids(wanted, ids)
    }

    /// Returns how many records of the slot's tables are live in each queue.
    pub fn stats(&self) -> &GlobalStats
        ensures { result.now ≡ self.now.content.counts }
    {
        &self.stats
    }

    /// Returns the ids of the slot's regions that were cleaned, in the order in which they were listed. A
    /// region may be listed twice.
    pub fn cleaned_regions(&self) -> &[u64]
        ensures { result.now ≡ self.now.content.cleaned }
    {
        self.cleaned.as_slice()
    }

    /// States what holds for every slot: each table is under its region's id; all of these regions, and the
    /// cleaned ones, belong to this slot; and the live counts are those of its tables. This is a law: it
    /// computes nothing.
    pub fn holds_own_tables(&self)
        ensures { HoldsOwnTables self.now }
    {
        self.tables.tables_are_own();
    }

    /// Makes one change of the table of the region `id`, for which an empty one is made first if it has none.
    /// Returns how many entries a compaction or a truncation dropped, and 0 for any other change.
    ///
    /// # Errors
    ///
    /// Those of [`MemTable::change`]; `Memory`. Tables and counts are unchanged then, and no table has been
    /// made.
    pub fn change(&mut self, id: u64, change: TableChange) -> Result<u64>
        requires { slot_of id ≡ self.old.number }
        ensures changed { IsTableChanged (after_change (table_in self.old.content.tables id) change)
            (IsChangeFault (table_in self.old.content.tables id) self.old.content.counts change) id
            result self.old.content self.new.content }
        ensures answer { IfOk result (IsAnswer change (table_in self.old.content.tables id)
            (table_in self.new.content.tables id)) }
        ensures allowed { OnOk result (IsAllowed change) }
        ensures counts { OnOk result (AreCountsAfter change (table_in self.old.content.tables id)
            self.old.content.counts self.new.content.counts) }
        ensures number { self.new.number ≡ self.old.number }
    {
        self.tables.change(id, change, &mut self.stats)
    }

    /// Makes an empty table for the region `id`, unless it has one. It returns no table: [`Slot::table`]
    /// does.
    ///
    /// # Errors
    ///
    /// `Memory` alone. The tables are unchanged then.
    pub fn get_or_insert(&mut self, id: u64) -> Result<()>
        requires { slot_of id ≡ self.old.number }
        ensures made { IsTableChanged (Some (table_in self.old.content.tables id))
            (λ e. ⊥) id result self.old.content self.new.content }
        ensures counts { self.new.content.counts ≡ self.old.content.counts }
        ensures number { self.new.number ≡ self.old.number }
    {
        self.tables.make_if_missing(id, &mut self.stats)
    }

    /// Sets the first and the last file of the atomic group of the region `id` in the rewrite queue to
    /// `start` and `end`, of which `start` is the lesser or the same. If the region has no table, an empty
    /// one is made first. Call it for each region that a group names, once the End of the group is written
    /// ([`MemTable::apply_rewrite_atomic_group`] says why).
    ///
    /// # Errors
    ///
    /// `Memory` alone. The tables are unchanged then.
    pub fn apply_rewrite_atomic_group(
        &mut self,
        id: u64,
        start: FileSeq,
        end: FileSeq,
    ) -> Result<()>
        requires slot { slot_of id ≡ self.old.number }
        requires seqs { start ≤ end }
        ensures changed { IsTableChanged (Some (record (table_in self.old.content.tables id)
            { atomic_group = Some (start, end) }))
            (λ e. ⊥)
            id result self.old.content self.new.content }
        ensures counts { self.new.content.counts ≡ self.old.content.counts }
        ensures number { self.new.number ≡ self.old.number }
    {
        self.tables
            .apply_rewrite_atomic_group(id, start, end, &mut self.stats)
    }

    /// Puts `table` under its region's id `id`, and counts its records as live. Returns the table that it
    /// replaces, whose records are no longer counted, or `None` if there was none.
    ///
    /// # Errors
    ///
    /// `Full` if a queue would have more than 2^64 - 1 live records in this slot, those of the replaced table
    /// counted too; `Memory`. Tables and counts are unchanged then, and `table` is dropped.
    pub fn insert(&mut self, id: u64, table: MemTable) -> Result<Option<MemTable>>
        requires slot { slot_of id ≡ self.old.number }
        requires region { table.region_id ≡ id }
        ensures ok { OnOk result (self.new.content.tables ≡ finite.insert self.old.content.tables id
            table) }
        ensures replaced { IfOk result (λ t. t ≡ finite.get self.old.content.tables id) }
        ensures own { IfOk result (λ t. IfSome t (IsSlotTable self.old.number id)) }
        ensures counts { OnOk result (self.new.content.counts
            ≡ with_table_deleted (table_in self.old.content.tables id)
            (with_table_added table self.old.content.counts)) }
        ensures err { OnErr result (self.new.content.tables ≡ self.old.content.tables) }
        ensures counts_err { OnErr result (self.new.content.counts ≡ self.old.content.counts) }
        ensures fault { IfErr result (λ e. (e ≡ Error.Memory)
            ⊎ ((e ≡ Error.Full)
            × ((q : LogQueue)
            × (2 ^ 64 ≤ live_in_all q self.old.content.tables + live_of q table)))) }
        ensures cleaned { self.new.content.cleaned ≡ self.old.content.cleaned }
        ensures number { self.new.number ≡ self.old.number }
    {
        self.tables.insert(id, table, &mut self.stats)
    }

    /// Takes the tables of this slot's regions, with their counts, out of `core`. The slot must have none.
    /// The list of cleaned regions stays with `core`. It allocates nothing; its time grows with these tables
    /// alone.
    pub fn take_tables(&mut self, core: &mut MemTableAccessor)
        requires { self.old.content.tables ≡ finite.empty }
        ensures { AreTablesTaken self.old self.new core.old core.new }
    {
        let (tables, stats) = core.take_slot(self.number);
        self.tables = tables;
        self.stats = stats;
    }

    /// Removes the table of the region `id` and returns it, or `None` if there is none. Its records are
    /// subtracted from the live counts. With `record_tombstone` the region is also listed as cleaned, even if
    /// it has no table.
    ///
    /// # Errors
    ///
    /// `Memory`, which can come only with `record_tombstone`. The slot is unchanged then.
    pub fn remove(&mut self, id: u64, record_tombstone: bool) -> Result<Option<MemTable>>
        requires { slot_of id ≡ self.old.number }
        ensures tables { OnOk result (self.new.content.tables ≡ finite.remove
            self.old.content.tables id) }
        ensures removed { IfOk result (λ t. t ≡ finite.get self.old.content.tables id) }
        ensures own { IfOk result (λ t. IfSome t (IsSlotTable self.old.number id)) }
        ensures counts { OnOk result (self.new.content.counts
            ≡ with_table_deleted (table_in self.old.content.tables id) self.old.content.counts) }
        ensures cleaned { OnOk result (self.new.content.cleaned
            ≡ (if record_tombstone then self.old.content.cleaned ++ id ∷ []
            else self.old.content.cleaned)) }
        ensures err { OnErr result (self.new ≡ self.old) }
        ensures fault { IfErr result (λ e. (e ≡ Error.Memory) × IsTrue record_tombstone) }
        ensures number { self.new.number ≡ self.old.number }
    {
        if record_tombstone {
            self.push_cleaned(id)?;
        }
        Ok(self.take_table(id))
    }

    /// Checks that [`apply_append_write`](Slot::apply_append_write) would accept these items, one after
    /// another, once their entries have a place and their key values a file in the append queue, whatever
    /// place and file. All their regions belong to this slot. It changes nothing.
    ///
    /// # Errors
    ///
    /// `Corruption` if it would refuse an item; the text names the region and the reason and, for entries,
    /// the index at which they begin. `Memory`.
    pub fn check_append_writes(&self, items: &[LogItem]) -> Result<()>
        ensures ok { OnOk result (AreAcceptedOncePlaced self.now.content.tables
            (map item_of items.now)) }
        ensures refused { IfErr result (λ e. e ≢ Error.Memory
            → AreRefusedOncePlaced self.now.content.tables (map item_of items.now)) }
        ensures fault { IfErr result (IsAppendCheckFault self.now.content.tables
            (map item_of items.now)) }
    {
        self.tables.check_append_items(items)
    }

    /// Writes `item`, a new one of the append queue, to the table of its region. A `Clean` also lists the
    /// region as cleaned.
    ///
    /// # Errors
    ///
    /// Those of [`RegionTables::append_item`]. The slot is unchanged then.
    pub fn apply_append_write(&mut self, item: LogItem) -> Result<()>
        requires { slot_of item.raft_group_id ≡ self.old.number }
        ensures written { IsWritten Appending (item_of item) result self.old.content
            self.new.content }
        ensures number { self.new.number ≡ self.old.number }
    {
        self.write_item(Writing::Appending, item)
    }

    /// Writes `item`, which was rewritten to the file numbered `new_file` of the rewrite queue, to the table
    /// of its region. `watermark` limits what moves. With one, entries move whose file is numbered at or
    /// below it; without one, those that are rewritten already. A key value in an append file moves only with
    /// a watermark at or above that file, a rewritten one always.
    ///
    /// # Errors
    ///
    /// Those of [`RegionTables::rewrite_item`]. The slot is unchanged then.
    pub fn apply_rewrite_write(
        &mut self,
        item: LogItem,
        watermark: Option<FileSeq>,
        new_file: FileSeq,
    ) -> Result<()>
        requires { slot_of item.raft_group_id ≡ self.old.number }
        ensures written { IsWritten (Rewriting watermark new_file) (item_of item) result self.old.content
            self.new.content }
        ensures number { self.new.number ≡ self.old.number }
    {
        self.write_item(Writing::Rewriting(watermark, new_file), item)
    }

    /// Writes one item to the table of its region, as `how` says.
    ///
    /// # Errors
    ///
    /// Those of [`RegionTables::append_item`], [`RegionTables::replay_item`] or
    /// [`RegionTables::rewrite_item`]. The slot is unchanged then.
    #[inline(always)]
    pub(crate) fn write_item(&mut self, how: Writing, item: LogItem) -> Result<()>
        requires { slot_of item.raft_group_id ≡ self.old.number }
        ensures written { IsWritten (writing_shown how) (item_of item) result self.old.content
            self.new.content }
        ensures number { self.new.number ≡ self.old.number }
    {
        self.tables
            .write_item(how, item, &mut self.stats, &mut self.cleaned)
    }

    /// Adds a `Clean` for each region that is listed as cleaned to `logs`, an open batch, in order, and
    /// empties the list.
    ///
    /// Write the batch to the rewrite queue, once the append queue is synced: a recovery would else bring
    /// back rewritten records of these regions. Other changes that take rewritten records away belong there
    /// too, but aren't listed here: compactions, truncations, deletions of keys, and each run that replaces
    /// entries, as a truncation at its first index.
    ///
    /// # Errors
    ///
    /// `Memory` alone. Slot and batch are unchanged then.
    pub fn take_cleaned_region_logs(&mut self, logs: &mut LogBatch) -> Result<()>
        requires { logs.old.stage ≡ is_open }
        ensures logs { OnOk result (logs.new ≡ record logs.old {
          items = logs.old.items ++ map (λ id. command_item id Clean) self.old.content.cleaned;
        }) }
        ensures ok { OnOk result (self.new ≡ record self.old
            { content = record self.old.content { cleaned = [] } }) }
        ensures err { OnErr result (self.new ≡ self.old) }
        ensures logs_err { OnErr result (logs.new ≡ logs.old) }
        ensures memory { IfErr result (λ e. e ≡ Error.Memory) }
        ensures number { self.new.number ≡ self.old.number }
    {
        append_cleans(*self.cleaned.allocator(), &self.cleaned, logs)?;
        self.cleaned.clear();
        Ok(())
    }

    /// Lists the region `id` as cleaned.
    ///
    /// # Errors
    ///
    /// `Memory` alone. The slot is unchanged then.
    pub(crate) fn push_cleaned(&mut self, id: u64) -> Result<()>
        requires { slot_of id ≡ self.old.number }
        ensures ok { OnOk result (self.new ≡ record self.old {
          content = record self.old.content { cleaned = self.old.content.cleaned ++ id ∷ [] };
        }) }
        ensures err { OnErr result (self.new ≡ self.old) }
        ensures memory { IfErr result (λ e. e ≡ Error.Memory) }
    {
        self.cleaned.push(id)?;
        Ok(())
    }

    /// Removes the table of the region `id` and returns it, or `None` if there is none. Its records are
    /// subtracted from the live counts.
    fn take_table(&mut self, id: u64) -> Option<MemTable>
        requires { slot_of id ≡ self.old.number }
        ensures tables { self.new.content.tables ≡ finite.remove self.old.content.tables id }
        ensures removed { result ≡ finite.get self.old.content.tables id }
        ensures own { IfSome result (IsSlotTable self.old.number id) }
        ensures counts { self.new.content.counts
            ≡ with_table_deleted (table_in self.old.content.tables id) self.old.content.counts }
        ensures cleaned { self.new.content.cleaned ≡ self.old.content.cleaned }
        ensures number { self.new.number ≡ self.old.number }
    {
        self.tables.remove(id, &mut self.stats)
    }
}

/// Adds a `Clean` for each of the regions `ids` to `logs`, an open batch, in order.
///
/// # Errors
///
/// `Memory` alone. The batch is unchanged then.
fn append_cleans(alloc: Global, ids: &[u64], logs: &mut LogBatch) -> Result<()>
    requires { logs.old.stage ≡ is_open }
    ensures ok { OnOk result (logs.new
        ≡ record logs.old { items = logs.old.items ++ map (λ id. command_item id Clean) ids.now }) }
    ensures err { OnErr result (logs.new ≡ logs.old) }
    ensures memory { IfErr result (λ e. e ≡ Error.Memory) }
{
    let mut cleans = clean_logs(alloc, ids)?;
    logs.is_read_again();
    logs.merge(&mut cleans)
}
