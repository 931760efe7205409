//! The list of the regions that were cleaned.

ghost use Rattle.std.specs.Prelude.{◌≡◌, [], ◌∷◌, ◌++◌, map, OnOk, OnErr, IfOk, IfErr};
ghost use Rattle.raft_accessor.specs.Common.{command_item, empty_batch, Clean};

use crate::accessor::MemTableAccessor;
use raft_base::{Error, Result};
use raft_records::{Command, LogBatch};
use std::alloc::Global;
use std::mem;

impl MemTableAccessor {
    /// Returns the ids of the regions that were cleaned, in the order in which they were listed. A region may
    /// be listed twice.
    pub fn cleaned_regions(&self) -> &[u64]
        ensures { result.now ≡ self.now.cleaned }
    {
        self.cleaned.as_slice()
    }

    /// Returns an open batch with a `Clean` for each region that is listed as cleaned, in order, and empties
    /// the list.
    ///
    /// Write the batch to the rewrite queue, once the append queue is synced: a recovery would else bring
    /// back rewritten records of these regions. Other changes that take rewritten records away belong there
    /// too, but aren't listed here: compactions, truncations, deletions of keys, and each run that replaces
    /// entries, as a truncation at its first index.
    ///
    /// # Errors
    ///
    /// `Memory` alone. The accessor is unchanged then.
    pub fn take_cleaned_region_logs(&mut self) -> Result<LogBatch>
        ensures logs { IfOk result (λ logs. logs
            ≡ record empty_batch { items = map (λ id. command_item id Clean) self.old.cleaned }) }
        ensures ok { OnOk result (self.new ≡ record self.old { cleaned = [] }) }
        ensures err { OnErr result (self.new ≡ self.old) }
        ensures memory { IfErr result (λ e. e ≡ Error.Memory) }
    {
        let logs = clean_logs(*self.cleaned.allocator(), &self.cleaned)?;
        self.cleaned.clear();
        Ok(logs)
    }

    /// Swaps the list of cleaned regions with that of `appended`. Tables and counts of both stay.
    #[doc(hidden)]
    pub fn take_cleaned(&mut self, appended: &mut MemTableAccessor)
        ensures tables { self.new.tables ≡ self.old.tables }
        ensures cleaned { self.new.cleaned ≡ appended.old.cleaned }
        ensures left { appended.new.tables ≡ appended.old.tables }
    {
        mem::swap(&mut self.cleaned, &mut appended.cleaned);
    }

    /// Appends the region `id` to the cleaned regions.
    ///
    /// # Errors
    ///
    /// `Memory` alone. The list is unchanged then.
    pub(super) fn push_cleaned(&mut self, id: u64) -> Result<()>
        ensures ok { OnOk result (self.new ≡ record self.old
            { cleaned = self.old.cleaned ++ id ∷ [] }) }
        ensures err { OnErr result (self.new ≡ self.old) }
        ensures memory { IfErr result (λ e. e ≡ Error.Memory) }
    {
        self.cleaned.push(id)?;
        Ok(())
    }
}

/// Returns an open batch with a `Clean` for each of the regions `ids`, in order.
///
/// # Errors
///
/// `Memory` alone.
pub fn clean_logs(alloc: Global, ids: &[u64]) -> Result<LogBatch>
    ensures ok { IfOk result (λ logs. logs ≡ record empty_batch
        { items = map (λ id. command_item id Clean) ids.now }) }
    ensures memory { IfErr result (λ e. e ≡ Error.Memory) }
{
    let mut logs = LogBatch::with_capacity(alloc, ids.len())?;
    for id in ids {
        logs.add_command(*id, Command::Clean)?;
    }
    Ok(logs)
}
