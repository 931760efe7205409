//! Which items and entries a dump prints.

ghost use Rattle.std.specs.Prelude.{◌≡◌};
ghost use Rattle.raft_records.specs.Item.{item_of};
ghost use Rattle.raft_listing.specs.Dumped.{has_any, has_index, has_one, is_of_region, is_selected};

use raft_base::EntryIndex;
use raft_records::{LogItem, LogItemContent};

/// Which items and entries a dump prints, and whether it prints their bytes.
#[derive(Clone, Copy, PartialEq, Eq, Debug)]
pub struct Selection {
    /// The only region whose items are printed; `None` for all regions.
    pub region: Option<u64>,
    /// The least index of the entries that are printed.
    pub from: u64,
    /// The index after the greatest of the entries that are printed: those from `from` on and below `to` are.
    pub to: u64,
    /// Whether values and the bytes of entries are printed too.
    pub values: bool,
}

impl Selection {
    /// Tests whether an item is printed. It must be of a selected region; if it has entries, one of them must be selected. An item without
    /// entries is printed whatever the bounds of indexes.
    pub fn has_item(&self, item: &LogItem) -> bool
        ensures { result ≡ is_selected self.now (item_of item.now) }
    {
        self.has_region(item.raft_group_id)
            && match &item.content {
                LogItemContent::EntryIndexes(entries) => self.allows_entries(entries.0.as_slice()),
                LogItemContent::Command(_) | LogItemContent::Kv(_) => true,
            }
    }

    /// Tests whether items of the region `region` are printed.
    fn has_region(&self, region: u64) -> bool
        ensures { result ≡ is_of_region self.now region }
    {
        match self.region {
            Some(only) => region == only,
            None => true,
        }
    }

    /// Tests whether an item with these `entries` is printed, as far as indexes decide: one of them is selected, or there are none.
    fn allows_entries(&self, entries: &[EntryIndex]) -> bool
        ensures { result ≡ has_any self.now entries.now }
    {
        entries.is_empty() || self.has_any_entry(entries)
    }

    /// Tests whether one of the entries is selected by its index.
    fn has_any_entry(&self, entries: &[EntryIndex]) -> bool
        ensures { result ≡ has_one self.now entries.now }
    {
        for entry in entries {
            if self.has_entry(entry) {
                return true;
            }
        }
        false
    }

    /// Tests whether the index of an entry is selected. The region isn't tested.
    pub fn has_entry(&self, entry: &EntryIndex) -> bool
        ensures { result ≡ has_index self.now entry.now }
    {
        self.from <= entry.index && entry.index < self.to
    }
}
