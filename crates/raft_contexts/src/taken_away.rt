//! What the append queue takes away from rewritten tables, as batches that are to be written to the rewrite
//! queue. A region mark (`Mark`) says what the append queue does to any older table of a region: entries
//! below its *floor* and from its *cut* on go, and so do the deleted keys, or all of it in a clean.

ghost use Rattle.std.specs.Prelude.{◌≡◌, ◌∷◌, [], ◌++◌, ◌&&◌, true, false, filter, map, nat_le, nat_lt, IfErr, IfOk, MatchOption, None, OnOk, Some, if◌then◌else◌};
ghost use Rattle.std.specs.FinMap as finite;
ghost use Rattle.std.specs.List.{list_any};
ghost use Rattle.raft_base.specs.declared.entry_index.EntryIndex.{EntryIndex};
ghost use Rattle.raft_records.specs.Item.{command_item};
ghost use Rattle.raft_records.specs.LogBatch.{is_open};
ghost use Rattle.raft_table.specs.Steps.{Clean, Compact, Del, Truncate};
ghost use Rattle.raft_contexts.specs.Common.{regions_in, table_in};
ghost use Rattle.raft_contexts.specs.TakenAway.{bounds_told, first_of, is_front_dropped, items_of_steps, takes_of, told_by_mark};
ghost use Rattle.raft_contexts.specs.TakenBatches.{AreOpen, IsTakenAway, with_mark_told, with_table_told};

use crate::marked_tables::MarkedTables;
use raft_accessor::MemTableAccessor;
use raft_base::{Error, Result};
use raft_records::{Command, LogBatch};
use raft_table::{Mark, MemTable};
use std::alloc::Global;

/// What the append queue takes away from rewritten tables, as open batches of commands and deletions that
/// take the same away. All items of a region are in one of the two batches.
#[derive(Drop)]
pub struct TakenAway {
    /// What has to be written at once: the items of regions that lose more rewritten entries than their
    /// region mark says, since the appended entries don't join these.
    pub at_once: LogBatch,
    /// What may be written later: the items of the other regions.
    pub later: LogBatch,
}

impl MarkedTables {
    /// Returns what the region marks of these tables, those of the append queue, take away from the tables
    /// `rewritten`, as open batches to write to the rewrite queue.
    ///
    /// # Errors
    ///
    /// `Memory` alone.
    pub(crate) fn taken_away(
        &self,
        alloc: Global,
        rewritten: &MemTableAccessor,
    ) -> Result<TakenAway>
        ensures ok { IfOk result (IsTakenAway (regions_in self.now) rewritten.now.tables) }
        ensures memory { IfErr result (λ e. e ≡ Error.Memory) }
    {
        let mut taken = TakenAway {
            at_once: LogBatch::default(alloc),
            later: LogBatch::default(alloc),
        };
        let tables = rewritten.tables()?;
        for table in &tables {
            self.add_taken_from_table(table, &mut taken)?;
        }
        Ok(taken)
    }

    /// Adds what the append queue takes away from `table`, a rewritten table, to `taken`.
    ///
    /// # Errors
    ///
    /// `Memory` alone. Some of it may have been added then.
    fn add_taken_from_table(&self, table: &MemTable, taken: &mut TakenAway) -> Result<()>
        requires { AreOpen taken.old }
        ensures ok { OnOk result (taken.new ≡ with_table_told (regions_in self.now) table.now taken.old) }
        ensures memory { IfErr result (λ e. e ≡ Error.Memory) }
    {
        let region = table.region_id();
        match self.marks.get(region) {
            Some(mark) => mark.add_taken_away(self.first_appended_index(region), table, taken),
            None => self.add_taken_by_implied_mark(table, taken),
        }
    }

    /// Adds what the append queue takes away from `table`, a rewritten table of a region whose region mark
    /// isn't kept, to `taken`: what the mark takes away that the region's appended table implies, or nothing
    /// if there is no such table.
    ///
    /// # Errors
    ///
    /// `Memory` alone. Some of it may have been added then.
    fn add_taken_by_implied_mark(&self, table: &MemTable, taken: &mut TakenAway) -> Result<()>
        requires none_kept { finite.get self.now.marks table.now.region_id ≡ None }
        requires open { AreOpen taken.old }
        ensures ok { OnOk result (taken.new ≡ with_table_told (regions_in self.now) table.now taken.old) }
        ensures memory { IfErr result (λ e. e ≡ Error.Memory) }
    {
        let region = table.region_id();
        let first = self.first_appended_index(region);
        match self.accessor.get(region) {
            Some(own) => add_taken_by_mark(&self.marks.mark_implied_by(own), first, table, taken),
            None => add_taken_by_mark(&self.marks.mark_of_no_step(), first, table, taken),
        }
    }

    /// Returns the index of the first entry that `region` has in the append queue, or `None` if it has none.
    fn first_appended_index(&self, region: u64) -> Option<u64>
        ensures { result ≡ first_of (table_in self.now.accessor.tables region).entries }
    {
        match self.accessor.get(region) {
            Some(own) => own.first_index(),
            None => None,
        }
    }
}

/// Adds what the region mark `mark` of the append queue takes away from `table`, the region's rewritten
/// table, to `taken`: to its batch `at_once` if entries go that the mark lets stay, else to `later`. `first`
/// is the index of the region's first entry in the append queue, or `None` if it has none.
///
/// # Errors
///
/// `Memory` alone. Some of it may have been added then.
pub(crate) fn add_taken_by_mark(
    mark: &Mark,
    first: Option<u64>,
    table: &MemTable,
    taken: &mut TakenAway,
) -> Result<()>
    requires { AreOpen taken.old }
    ensures ok { OnOk result (taken.new ≡ with_mark_told mark.now first table.now taken.old) }
    ensures memory { IfErr result (λ e. e ≡ Error.Memory) }
{
    match first_if_front_dropped(mark, first, table) {
        Some(index) => add_dropped_front(mark, index, table, taken),
        None => add_steps_of_mark(mark, table, &mut taken.later),
    }
}

/// Adds to the batch `at_once` of `taken` what is taken away from `table`, a rewritten table whose entries
/// below the mark's cut go too, since the appended ones, which begin at `index`, don't join them: what `mark`
/// takes away, and a compaction to `index` if the table begins below it.
///
/// # Errors
///
/// `Memory` alone. Some of it may have been added then.
fn add_dropped_front(mark: &Mark, index: u64, table: &MemTable, taken: &mut TakenAway) -> Result<()>
    requires dropped { is_front_dropped mark.now (Some index) table.now ≡ true }
    requires open { AreOpen taken.old }
    ensures ok { OnOk result (taken.new ≡ with_mark_told mark.now (Some index) table.now taken.old) }
    ensures memory { IfErr result (λ e. e ≡ Error.Memory) }
{
    add_steps_of_mark(mark, table, &mut taken.at_once)?;
    let compacts = has_entry_below(table, index);
    add_command_if(
        compacts,
        table.region_id(),
        Command::Compact { index },
        &mut taken.at_once,
    )
}

/// Returns `first`, the index at which the appended entries begin, if rewritten entries that `mark` lets stay
/// go because the appended ones don't join them ([`drops_front`]). Returns `None` otherwise, and if there are
/// no appended entries.
fn first_if_front_dropped(mark: &Mark, first: Option<u64>, table: &MemTable) -> Option<u64>
    ensures { MatchOption result (is_front_dropped mark.now first table.now ≡ false)
        (λ index. (first ≡ Some index) × (is_front_dropped mark.now (Some index) table.now ≡ true)) }
{
    let index = first?;
    if drops_front(mark, index, table) {
        return Some(index);
    }
    None
}

/// Tests whether `table` has entries that `mark` lets stay, those from its floor on and below its cut, which
/// go because the appended entries, from index `first` on, don't join them: these don't begin at the cut, or
/// the table ends below it.
fn drops_front(mark: &Mark, first: u64, table: &MemTable) -> bool
    ensures { result ≡ is_front_dropped mark.now (Some first) table.now }
{
    if mark.is_cleaned() {
        return false;
    }
    match mark.cut() {
        Some(cut) => (first != cut || table.end() < cut)
            && has_entry_between(table, mark.floor(), cut),
        None => false,
    }
}

/// Tests whether `table` has an entry at or above index `from` and below index `below`.
fn has_entry_between(table: &MemTable, from: u64, below: u64) -> bool
    ensures { result ≡ list_any (λ (e : EntryIndex). nat_le from e.index && nat_lt e.index below) table.now.entries }
{
    table.holds_one_run();
    match table.first_index() {
        Some(first) => first.max(from) < table.end().min(below),
        None => false,
    }
}

/// Adds what `mark` takes away from `table`, the region's rewritten table, to the open batch `told`: its
/// clean, or its compaction, truncation and deletions of keys. What would take nothing away is left out.
///
/// # Errors
///
/// `Memory` alone. Some of it may have been added then.
fn add_steps_of_mark(mark: &Mark, table: &MemTable, told: &mut LogBatch) -> Result<()>
    requires { told.old.stage ≡ is_open }
    ensures ok { OnOk result (told.new ≡ record told.old {
      items = told.old.items ++ items_of_steps table.now.region_id (told_by_mark mark.now table.now);
    }) }
    ensures memory { IfErr result (λ e. e ≡ Error.Memory) }
{
    add_bounds_of_mark(mark, table, told)?;
    let keys = table.keys_deleted_by(mark)?;
    add_deletions(table.region_id(), keys, told)
}

/// Adds the commands by which `mark` takes something away from `table`, the region's rewritten table, to the
/// open batch `told`: a Clean, or a compaction to its floor and a truncation at its cut.
///
/// # Errors
///
/// `Memory` alone. Some of it may have been added then.
fn add_bounds_of_mark(mark: &Mark, table: &MemTable, told: &mut LogBatch) -> Result<()>
    requires { told.old.stage ≡ is_open }
    ensures ok { OnOk result (told.new ≡ record told.old {
      items = told.old.items
          ++ items_of_steps table.now.region_id (filter (takes_of table.now) (bounds_told mark.now));
    }) }
    ensures memory { IfErr result (λ e. e ≡ Error.Memory) }
{
    let region = table.region_id();
    if mark.is_cleaned() {
        return add_command_if(has_records(table), region, Command::Clean, told);
    }
    let index = mark.floor();
    let compacts = has_entry_below(table, index);
    add_command_if(compacts, region, Command::Compact { index }, told)?;
    match mark.cut() {
        Some(index) => {
            let truncates = has_entry_from(table, index);
            add_command_if(truncates, region, Command::Truncate { index }, told)
        }
        None => Ok(()),
    }
}

/// Adds `command` for `region` to the open batch `told` if `takes` is set, which says that the command takes
/// something away. Does nothing otherwise.
///
/// # Errors
///
/// `Memory` alone. The batch is unchanged then.
fn add_command_if(takes: bool, region: u64, command: Command, told: &mut LogBatch) -> Result<()>
    requires { told.old.stage ≡ is_open }
    ensures ok { OnOk result (told.new ≡ record told.old {
      items = told.old.items ++ (if takes then command_item region command ∷ [] else []);
    }) }
    ensures memory { IfErr result (λ e. e ≡ Error.Memory) }
{
    if takes {
        return told.add_command(region, command);
    }
    Ok(())
}

/// Adds a deletion of each of `keys` in `region` to the open batch `told`, in order.
///
/// # Errors
///
/// `Memory` alone. Some of them may have been added then.
fn add_deletions(region: u64, keys: Vec<Vec<u8>>, told: &mut LogBatch) -> Result<()>
    requires { told.old.stage ≡ is_open }
    ensures ok { OnOk result (told.new ≡ record told.old {
      items = told.old.items ++ items_of_steps region (map Del (map (λ k. k.items) keys.items));
    }) }
    ensures memory { IfErr result (λ e. e ≡ Error.Memory) }
{
    for key in keys {
        told.delete(region, key)?;
    }
    Ok(())
}

/// Tests whether `table` has an entry or a key value, which a clean would drop.
fn has_records(table: &MemTable) -> bool
    ensures { result ≡ takes_of table.now Clean }
{
    table.entries_count() > 0 || table.key_count() > 0
}

/// Tests whether `table` has an entry below `index`, which a compaction would drop.
fn has_entry_below(table: &MemTable, index: u64) -> bool
    ensures { result ≡ takes_of table.now (Compact index) }
{
    table.holds_one_run();
    match table.first_index() {
        Some(first) => first < index,
        None => false,
    }
}

/// Tests whether `table` has an entry at or above `index`, which a truncation would drop.
fn has_entry_from(table: &MemTable, index: u64) -> bool
    ensures { result ≡ takes_of table.now (Truncate index) }
{
    index < table.end()
}
