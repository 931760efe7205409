//! The tables of the regions of one slot.

ghost use Rattle.std.specs.Prelude.{◌≡◌, ◌≢◌, ◌≤◌, ◌+◌, ◌↔◌, ℕ, nat_eq, List, map, length, IsPermutation, IsTrue, OnOk, IfErr, IfSome, Some, None, option_map};
ghost use Rattle.raft_accessor.specs.Common.{IsChangeTried, IsDistinct, FoldsTo, keys_of, lookup, LogQueue, Append, Rewrite, total, Tables, run_shown, Table, IsCounted, IsRecounted, IsRunIn, table_in, live_in_all, with_neighbor};
ghost use Rattle.raft_accessor.specs.Common.{IsFaultBeside, MayAlter, IsAltered, IsTableMerged, IsRunTried, MayChange, IsUpdated, BecomesOutcome, Collects, KeepsId, Makes};
ghost use Rattle.std.specs.FinMap as finite;

mod counts;
mod insert_remove;
mod join;
mod overlay;
pub(crate) mod steps;

use crate::boxed_table::BoxedTable;
use crate::neighbor::Neighbor;
use raft_base::{Error, FileSeq, LogQueue, Result};
use raft_table::{GlobalStats, MemTable, Run, TableChange};
use std::alloc::Global;
use std::collections::HashMap;
use std::collections::hash_map::IntoIter;
use std::marker::Model;

/// The tables of the regions of one slot, each under its region's id. Calls that change records also change
/// the live counts, `stats`, which the caller keeps. The records of the tables must be counted there.
#[doc(hidden)]
#[derive(Drop)]
pub struct RegionTables {
    /// The tables, each under its region's id.
    tables: HashMap<u64, BoxedTable>,
    /// The allocator of new tables.
    pub(crate) alloc: Global,
}

impl Model for RegionTables {
    ghost use Rattle.std.specs.FinMap as finite;
    ghost use Rattle.std.specs.Coded.{coded_ℕ};
    ghost use Rattle.raft_table.specs.TableCode.{table_code};
    ghost use Rattle.raft_history.specs.RegionSteps.{Tables};

    ghost Value = { Tables };

    ghost coded = { finite.code coded_ℕ table_code };

    ghost use Rattle.raft_accessor.specs.RegionTablesView.{tables_shown, AreTablesKept};

    ghost view = { tables_shown };

    ghost invariant = { AreTablesKept };
}

impl RegionTables {
    /// Returns a slot without tables. It allocates nothing yet.
    pub fn new(alloc: Global) -> RegionTables
        ensures { result ≡ finite.empty }
    {
        RegionTables {
            tables: HashMap::new(alloc),
            alloc,
        }
    }

    /// Tests whether no region of the slot has a table.
    pub fn is_empty(&self) -> bool
        ensures { IsTrue result ↔ (self.now ≡ finite.empty) }
    {
        self.tables.is_empty()
    }

    /// Returns the table of the region `id`, or `None` if it has none.
    pub fn get(&self, id: u64) -> Option<&MemTable>
        ensures value { option_map (λ t. t.now) result ≡ finite.get self.now id }
        ensures own { IfSome result (λ t. t.now.region_id ≡ id) }
    {
        match self.tables.get(&id) {
            Some(table) => Some(table.get()),
            None => None,
        }
    }

    /// Appends the tables for which `f` returns true to `tables`, in no set order. `f` is called once with
    /// each table of the slot.
    ///
    /// # Errors
    ///
    /// `Memory` alone. Some of the tables have been appended then.
    pub(crate) fn push_matching<'a, F: FnMut(&MemTable) -> bool>(
        &'a self,
        f: &mut F,
        tables: &mut Vec<&'a MemTable>,
    ) -> Result<()>
        requires { F.IsAlwaysCallable f.old }
        ensures callable { OnOk result (F.IsAlwaysCallable f.new) }
        ensures ok { OnOk result ((ts : List Table) × IsPermutation ts (finite.values self.now)
            × FoldsTo (Collects F.FnMut) (f.old, map (λ t. t.now) tables.old.items) ts
            (f.new, map (λ t. t.now) tables.new.items)) }
        ensures memory { IfErr result (λ e. e ≡ Error.Memory) }
    {
        for table in self.tables.values() {
            let table = table.get();
            if f(table) {
                tables.push(table)?;
            }
        }
        Ok(())
    }

    /// Returns how many entries all tables have together.
    pub(crate) fn entries_count(&self) -> u128
        ensures entries { result ≡ total (λ (t : Table). length t.entries) self.now }
        ensures others { result + total (λ (t : Table). finite.len t.keys) self.now
            ≡ live_in_all Append self.now + live_in_all Rewrite self.now }
    {
        let mut count = 0;
        for table in self.tables.values() {
            let table = table.get();
            table.holds_one_run();
            count += table.entries_count() as u128;
        }
        count
    }

    /// Calls `f` with `init` and a table of the slot, then with what it returned and the next table, and so
    /// on, once for each table, in no set order. Returns what the last call returned, or `init` if there are
    /// no tables.
    pub fn fold<B: Drop, F: FnMut(B, &MemTable) -> B>(&self, init: B, f: &mut F) -> B
        requires { (state : F) (x : _) (t : _) → F.pre state x t }
        ensures { (ts : List Table) × IsPermutation ts (finite.values self.now)
            × FoldsTo (Makes F.FnMut) (f.old, init) ts (f.new, result) }
    {
        let mut answer = init;
        for table in self.tables.values() {
            answer = f(answer, table.get());
        }
        answer
    }

    /// Appends the region ids of the tables for which `wanted` returns true to `ids`, in no set order.
    /// `wanted` is called once with each table of the slot.
    ///
    /// # Errors
    ///
    /// `Memory` alone. Some of the ids have been appended then.
    pub fn push_ids<F: FnMut(&MemTable) -> bool>(
        &self,
        wanted: &mut F,
        ids: &mut Vec<u64>,
    ) -> Result<()>
        requires { (state : F) (x : _) → F.pre state x }
        ensures ok { OnOk result ((ts : List Table) × IsPermutation ts (finite.values self.now)
            × FoldsTo (KeepsId F.FnMut) (wanted.old, ids.old.items) ts
            (wanted.new, ids.new.items)) }
        ensures memory { IfErr result (λ e. e ≡ Error.Memory) }
    {
        for table in self.tables.values() {
            let table = table.get();
            if wanted(table) {
                ids.push(table.region_id())?;
            }
        }
        Ok(())
    }

    /// States that each table is kept under its own region's id. This is a law: it computes nothing.
    pub fn tables_are_own(&self)
        ensures { (id : ℕ) (t : Table) → finite.get self.now id ≡ Some t → t.region_id ≡ id }
    {
        let _ = &self.tables;
    }

    /// Makes an empty table for the region `id`, unless it has one. The live counts `stats` stay the same.
    ///
    /// # Errors
    ///
    /// `Memory` alone. The tables are unchanged then.
    pub fn make_if_missing(&mut self, id: u64, stats: &mut GlobalStats) -> Result<()>
        requires { IsCounted (table_in self.old id) stats.old }
        ensures outcome { BecomesOutcome (Some (table_in self.old id)) (λ e. ⊥) self.old id
            stats.old result self.new stats.new }
        ensures counts { stats.new ≡ stats.old }
    {
        self.update(id, stats, |_, _| Ok(()))
    }

    /// Makes one change of the table of the region `id`, for which an empty one is made first if it has none.
    /// Returns how many entries a compaction or a truncation dropped, and 0 for any other change.
    ///
    /// # Errors
    ///
    /// Those of [`MemTable::change`]; `Memory`. Tables and counts are unchanged then, and no table has been
    /// made.
    pub fn change(&mut self, id: u64, change: TableChange, stats: &mut GlobalStats) -> Result<u64>
        requires { IsCounted (table_in self.old id) stats.old }
        ensures { IsChangeTried change id self.old stats.old result self.new stats.new }
    {
        self.update(id, stats, move |table, stats| table.change(change, stats))
    }

    /// Puts `run`, which was read from `queue`, into the table of the region `id`. A region without a table
    /// gets an empty one first. Returns the index of the first entry that the table had before and the index
    /// after the last one, both 0 if it had none.
    ///
    /// Returns `None`, and changes nothing, if the table would refuse the run or there is no memory.
    #[inline(always)]
    pub(crate) fn try_replay(
        &mut self,
        queue: LogQueue,
        id: u64,
        run: &Run<'_>,
        stats: &mut GlobalStats,
    ) -> Option<(u64, u64)>
        requires run { IsRunIn queue (run_shown run.now) }
        requires counted { IsCounted (table_in self.old id) stats.old }
        ensures { IsRunTried queue id (run_shown run.now) self.old stats.old result self.new
            stats.new }
    {
        let Some(table) = self.tables.get_mut(&id) else {
            return self.try_replay_into_new(queue, id, run, stats);
        };
        let ends = table.boxed.ends();
        if !table.boxed.try_replay(queue, run, stats) {
            return None;
        }
        Some(ends)
    }

    /// Puts `run`, which was read from `queue`, into a new table of the region `id`, which has none. Returns
    /// two zeros, as [`RegionTables::try_replay`] does for a table that had no entries. Returns `None`, and
    /// makes no table, if that would refuse the run or there is no memory.
    #[inline(always)]
    fn try_replay_into_new(
        &mut self,
        queue: LogQueue,
        id: u64,
        run: &Run<'_>,
        stats: &mut GlobalStats,
    ) -> Option<(u64, u64)>
        requires first { finite.get self.old id ≡ None }
        requires run { IsRunIn queue (run_shown run.now) }
        ensures { IsRunTried queue id (run_shown run.now) self.old stats.old result self.new
            stats.new }
    {
        if self.tables.reserve(1).is_err() {
            return None;
        }
        let Ok(mut table) = BoxedTable::empty(self.alloc, id) else {
            return None;
        };
        if !table.boxed.try_replay(queue, run, stats) {
            return None;
        }
        match self.tables.insert(id, table) {
            Ok(_) => Some((0, 0)),
            Err(_) => unreachable!(),
        }
    }

    /// Sets the first and the last file of the atomic group of the region `id` in the rewrite queue to
    /// `start` and `end`, of which `start` is the lesser or the same. If the region has no table, an empty
    /// one is made first. The live counts stay the same.
    ///
    /// # Errors
    ///
    /// `Memory` alone. The tables are unchanged then.
    pub fn apply_rewrite_atomic_group(
        &mut self,
        id: u64,
        start: FileSeq,
        end: FileSeq,
        stats: &mut GlobalStats,
    ) -> Result<()>
        requires seqs { start ≤ end }
        requires counted { IsCounted (table_in self.old id) stats.old }
        ensures outcome { BecomesOutcome
            (Some (record (table_in self.old id) { atomic_group = Some (start, end) }))
            (λ e. ⊥) self.old id stats.old result self.new stats.new }
        ensures counts { stats.new ≡ stats.old }
    {
        self.update(id, stats, move |table, _| {
            table.apply_rewrite_atomic_group(start, end);
            Ok(())
        })
    }

    /// Returns the tables, each with the id of its region, in no set order.
    pub fn into_entries(self) -> IntoIter<u64, BoxedTable>
        ensures entries { finite.from_entries result ≡ self }
        ensures once { IsDistinct nat_eq (keys_of result) }
        ensures own { (id : ℕ) (t : Table) → lookup (nat_eq id) result ≡ Some t → t.region_id ≡ id }
    {
        self.tables.into_iter()
    }

    /// Merges `newer`, a table of the region `id`, into the table of that region, as `kind` says. If the
    /// region has none, an empty one is made first, which stays even if the merge is refused.
    ///
    /// # Errors
    ///
    /// Those of [`MemTable::merge_newer_neighbor`] or [`MemTable::merge_append_table`]. The table of the
    /// region is unchanged then, unless the error is `Memory`. `newer` is dropped.
    pub(crate) fn merge_neighbor(
        &mut self,
        kind: Neighbor,
        id: u64,
        newer: BoxedTable,
        stats: &mut GlobalStats,
    ) -> Result<()>
        requires region { newer.region_id ≡ id }
        requires counted { IsCounted (table_in self.old id) stats.old }
        ensures { IsTableMerged (with_neighbor kind (table_in self.old id) newer)
            (IsFaultBeside kind stats.new (table_in self.old id) newer) self.old id stats.old result
            self.new stats.new }
    {
        self.update_and_keep(id, stats, move |table, stats| {
            merge_by_kind(kind, table, newer, stats)
        })
    }

    /// Calls `change` with the table of the region `id` and the live counts, and returns its answer. If the
    /// region has no table, an empty one is made first. What `change` leaves is kept even if it fails, in a
    /// new table too; [`RegionTables::update`] drops a new one then.
    ///
    /// # Errors
    ///
    /// Those of `change`; `Memory` if no table can be made, and nothing has changed then.
    #[inline(always)]
    fn update_and_keep<R: Drop, F: FnOnce(&mut MemTable, &mut GlobalStats) -> Result<R>>(
        &mut self,
        id: u64,
        stats: &mut GlobalStats,
        change: F,
    ) -> Result<R>
    where
        F: Drop,
        requires counted { IsCounted (table_in self.old id) stats.old }
        requires may { (table_in self.old id).region_id ≡ id
            → MayAlter F.FnOnce change (table_in self.old id) stats.old }
        ensures { IsAltered F.FnOnce change self.old id stats.old result self.new stats.new }
    {
        if let Some(table) = self.tables.get_mut(&id) {
            return change(&mut table.boxed, stats);
        }
        self.tables.reserve(1)?;
        let mut table = BoxedTable::empty(self.alloc, id)?;
        let answer = change(&mut table.boxed, stats);
        match self.tables.insert(id, table) {
            Ok(_) => answer,
            Err(_) => unreachable!(),
        }
    }

    /// Calls `change` with the table of the region `id` and the live counts, and returns its answer. If the
    /// region has no table, an empty one is made first. The table is looked up once. A `change` that fails
    /// must leave table and counts as they were.
    ///
    /// # Errors
    ///
    /// Those of `change`; `Memory` if no table can be made. Nothing has changed then, and no table has been
    /// made.
    #[inline(always)]
    pub(crate) fn update<R: Drop, F: FnOnce(&mut MemTable, &mut GlobalStats) -> Result<R>>(
        &mut self,
        id: u64,
        stats: &mut GlobalStats,
        change: F,
    ) -> Result<R>
    where
        F: Drop,
        requires counted { IsCounted (table_in self.old id) stats.old }
        requires may { MayChange F.FnOnce change (table_in self.old id) stats.old }
        ensures { IsUpdated F.FnOnce change self.old id stats.old result self.new stats.new }
    {
        if let Some(table) = self.tables.get_mut(&id) {
            return change(&mut table.boxed, stats);
        }
        self.tables.reserve(1)?;
        let mut table = BoxedTable::empty(self.alloc, id)?;
        let answer = change(&mut table.boxed, stats)?;
        match self.tables.insert(id, table) {
            Ok(_) => Ok(answer),
            Err(_) => unreachable!(),
        }
    }
}

/// Merges `newer` into `table`, of the same region, as `kind` says: as the table of its newer neighbor, or as
/// one of the append queue.
///
/// # Errors
///
/// Those of [`MemTable::merge_newer_neighbor`] or [`MemTable::merge_append_table`]. `table` is unchanged
/// then, unless the error is `Memory`. `newer` is dropped.
fn merge_by_kind(
    kind: Neighbor,
    table: &mut MemTable,
    mut newer: BoxedTable,
    stats: &mut GlobalStats,
) -> Result<()>
    requires region { table.old.region_id ≡ newer.region_id }
    requires counted { IsCounted table.old stats.old }
    ensures ok { OnOk result (with_neighbor kind table.old newer ≡ Some table.new) }
    ensures fault { IfErr result (IsFaultBeside kind stats.new table.old newer) }
    ensures err { IfErr result (λ e. e ≢ Error.Memory → table.new ≡ table.old) }
    ensures region { table.new.region_id ≡ table.old.region_id }
    ensures recounted { IsRecounted table.old table.new stats.old stats.new }
{
    match kind {
        Neighbor::Newer => table.merge_newer_neighbor(&mut newer.boxed, stats),
        Neighbor::Appended => table.merge_append_table(&mut newer.boxed, stats),
    }
}
