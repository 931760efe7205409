//! A check of new items: whether the tables would accept them, one after the other.

ghost use Rattle.std.specs.Prelude.{◌≡◌, ℕ, List, [], IfOk, IfErr, OnOk, option_map};
ghost use Rattle.raft_accessor.specs.Common.{EntryIndex, item_of, pair_of, table_of, below, from, Tables, table_in, IsExtentOf, commanded, TakesRun, IsRunCheckFault, AreBefore, TakesNext, IsNextFault, IsPairAccepted, IsPairCheckFault, known_extents};

use crate::known_extents::KnownExtents;
use raft_base::{EntryIndex, Error, Result, is_consecutive};
use raft_records::{Command, KeyValue, LogItem, LogItemContent, OpType, is_reserved};
use raft_table::{MemTable, hole_error};
use std::alloc::Global;

/// Where the entries of a region begin and end: the index of the first one, and the index after the last one.
/// Both are 0 without entries.
#[derive(Clone, Copy, Debug)]
pub(crate) struct Extent {
    first: u64,
    end: u64,
}

impl Extent {
    /// Returns the extent of no entries: both ends are 0.
    fn of_no_entries() -> Extent
        ensures { IsExtentOf result [] }
    {
        Extent { first: 0, end: 0 }
    }

    /// Returns the extent of the entries of `table`, or that of no entries without a table.
    fn of_table(table: Option<&MemTable>) -> Extent
        ensures { (id : ℕ) → IsExtentOf result
            (table_of id (option_map (λ t. t.now) table.entry)).entries }
    {
        let Some(table) = table else {
            return Extent::of_no_entries();
        };
        table.holds_one_run();
        match table.first_index() {
            Some(first) => Extent {
                first,
                end: table.end(),
            },
            None => Extent::of_no_entries(),
        }
    }

    /// Returns what is left of the extent by a compaction to `index`: the entries at or above it.
    fn after_compaction(self, index: u64) -> Extent
        ensures { (es : List EntryIndex) → IsExtentOf self es → IsExtentOf result (from index es) }
    {
        if self.end <= index {
            return Extent::of_no_entries();
        }
        Extent {
            first: self.first.max(index),
            end: self.end,
        }
    }

    /// Returns what is left of the extent by a truncation at `index`: the entries below it.
    fn after_truncation(self, index: u64) -> Extent
        ensures { (es : List EntryIndex) → IsExtentOf self es → IsExtentOf result (below index es) }
    {
        if index <= self.first {
            return Extent::of_no_entries();
        }
        Extent {
            first: self.first,
            end: self.end.min(index),
        }
    }

    /// Returns the extent after `command`: none after a `Clean`, else what the compaction or truncation
    /// leaves.
    fn after_command(self, command: &Command) -> Extent
        ensures { (es : List EntryIndex) → IsExtentOf self es
            → IsExtentOf result (commanded command.now es) }
    {
        match command {
            Command::Clean => Extent::of_no_entries(),
            Command::Compact { index } => self.after_compaction(*index),
            Command::Truncate { index } => self.after_truncation(*index),
        }
    }

    /// Returns the extent after `run` has been appended, by the rules of [`MemTable::append`]. A run without
    /// entries changes nothing. `id` is the region, for the text of an error.
    ///
    /// # Errors
    ///
    /// `Corruption` if the indexes of the run aren't consecutive, or it begins below the first entry or
    /// leaves a hole after the last one; `Memory` if there is none for the text.
    fn after_run(self, alloc: Global, id: u64, run: &[EntryIndex]) -> Result<Extent>
        ensures ok { IfOk result (TakesRun self run.now) }
        ensures fault { IfErr result (IsRunCheckFault self run.now) }
    {
        let Some(first) = run.first() else {
            return Ok(self);
        };
        let start = first.index;
        if !is_consecutive(run) {
            return Err(Error::Corruption(format!(in alloc;
                "region {id}: the indexes of a run from {start} on are not consecutive"
            )?));
        }
        if start < self.first {
            let first = self.first;
            return Err(Error::Corruption(format!(in alloc;
                "region {id}: a run from index {start} on begins in front of the first entry {first}"
            )?));
        }
        let end = self.end;
        if 0 < end && end < start {
            return Err(hole_error(alloc, id, start, end));
        }
        Ok(Extent {
            first: if end == 0 { start } else { self.first },
            end: start + run.len() as u64,
        })
    }
}

/// Checks items one after the other, each as if those before it had been written. It keeps the extents of the
/// regions whose entries they change. Any other region has the extent of its table.
#[derive(Drop)]
pub(crate) struct AppendCheck {
    extents: KnownExtents,
    alloc: Global,
}

impl AppendCheck {
    /// Returns a check that has seen no item. It allocates nothing yet.
    pub(crate) fn new(alloc: Global) -> AppendCheck
        ensures { known_extents result.extents ≡ [] }
    {
        AppendCheck {
            extents: KnownExtents::new(alloc),
            alloc,
        }
    }

    /// Checks the next item, and notes where the entries of its region begin and end after it. `table` is the
    /// table that this region had before all items, or `None` if it had none.
    ///
    /// # Errors
    ///
    /// `Corruption` if the tables would refuse the item, with the region and the reason; `Memory`. Nothing is
    /// noted then.
    pub(crate) fn check_next_item(&mut self, item: &LogItem, table: Option<&MemTable>) -> Result<()>
        ensures ok { OnOk result (TakesNext (known_extents self.old.extents)
            (option_map (λ t. t.now) table.entry) (item_of item.now) (known_extents self.new.extents)) }
        ensures fault { IfErr result (IsNextFault (known_extents self.old.extents)
            (option_map (λ t. t.now) table.entry) (item_of item.now)) }
    {
        let id = item.raft_group_id;
        match &item.content {
            LogItemContent::EntryIndexes(entries) => {
                let extent = self
                    .extent_of(id, table)
                    .after_run(self.alloc, id, &entries.0)?;
                self.extents.insert(id, extent)
            }
            LogItemContent::Command(command) => {
                let extent = self.extent_of(id, table).after_command(command);
                self.extents.insert(id, extent)
            }
            LogItemContent::Kv(kv) => check_pair(self.alloc, id, kv),
        }
    }

    /// Returns the extent of the region `id` after the items so far. `table` is the table that the region had
    /// before all items, or `None` if it had none.
    fn extent_of(&self, id: u64, table: Option<&MemTable>) -> Extent
        ensures { (before now : Tables)
            → AreBefore (known_extents self.now.extents) id (option_map (λ t. t.now) table.entry) before now
            → IsExtentOf result (table_in now id).entries }
    {
        match self.extents.get(id) {
            Some(extent) => extent,
            None => Extent::of_table(table),
        }
    }
}

/// Checks that `kv`, a change of a key of the region `id`, has a value if it is a put. Under the reserved key
/// of group markers it may lack one.
///
/// # Errors
///
/// `Corruption` for a put without a value; `Memory` if there is none for its text.
fn check_pair(alloc: Global, id: u64, kv: &KeyValue) -> Result<()>
    ensures ok { OnOk result (IsPairAccepted (pair_of kv.now)) }
    ensures fault { IfErr result (IsPairCheckFault (pair_of kv.now)) }
{
    if is_reserved(&kv.key) || kv.value.is_some() {
        return Ok(());
    }
    match kv.op_type {
        OpType::Put => Err(Error::Corruption(format!(in alloc;
            "region {id}: a key is put without value"
        )?)),
        OpType::Del => Ok(()),
    }
}
