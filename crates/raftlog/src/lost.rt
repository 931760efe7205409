//! A walk that finds out whether the bytes of selected entries can be read.

ghost use Rattle.std.specs.Prelude.{IfSome};
ghost use Rattle.raft_listing.specs.ReadBlocks.{IsReadBlock};

use raft_base::{EntryIndex, Error, Result};
use raft_listing::{BytesOfEntry, PartVisitor, ReadBlock, Selection, bytes_of_entry, needed_block};
use raft_records::{FilePart, LogItem, LogItemContent};

/// A visitor that reads the bytes of the selected entries, and notes whether some can't be read.
#[derive(Drop)]
pub(crate) struct LostEntries {
    /// Which entries are looked at.
    selection: Selection,
    /// Whether the bytes of a selected entry couldn't be read so far.
    pub(crate) is_any: bool,
}

impl LostEntries {
    /// Makes a visitor that has seen nothing yet.
    pub(crate) fn new(selection: Selection) -> LostEntries {
        LostEntries {
            selection,
            is_any: false,
        }
    }

    /// Reads the bytes of those of `entries` that are selected by their indexes, and notes whether some can't be read. `known` is the entry
    /// block that was read already.
    ///
    /// # Errors
    ///
    /// `Memory` alone.
    fn note_lost_entries(
        &mut self,
        part: &FilePart,
        entries: &[EntryIndex],
        known: Option<ReadBlock<'_>>,
    ) -> Result<()>
        requires { IfSome known (IsReadBlock part.now) }
    {
        for entry in entries {
            if self.selection.has_entry(entry) {
                let read = bytes_of_entry(part, entry, known)?;
                self.is_any = self.is_any || matches!(read, BytesOfEntry::Lost(_));
            }
        }
        Ok(())
    }
}

impl PartVisitor for LostEntries {
    ghost visits = { λ _ _ _ _ _. Unit {0} };

    ghost may_fail = { λ _. Unit {0} };

    /// Reads the bytes of the selected entries of a batch.
    ///
    /// # Errors
    ///
    /// `Memory` alone.
    fn visit_batch(
        &mut self,
        part: &FilePart,
        _at: usize,
        _next: usize,
        items: &[LogItem],
    ) -> Result<()> {
        let known = needed_block(part, items, &self.selection)?;
        for item in items {
            if let LogItemContent::EntryIndexes(entries) = &item.content {
                if self.selection.has_item(item) {
                    self.note_lost_entries(part, entries.0.as_slice(), known)?;
                }
            }
        }
        Ok(())
    }

    /// Does nothing: a byte at which no batch can be read has no entries.
    fn visit_damage(
        &mut self,
        _part: &FilePart,
        _at: usize,
        _next: Option<usize>,
        _reason: Error,
    ) -> Result<()> {
        Ok(())
    }
}
