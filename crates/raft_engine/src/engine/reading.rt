//! Reading entries and key values.

ghost use Rattle.std.specs.Prelude.{◌≡◌, map, option_map, IfErr, IfOk, IsOk, OnErr, List, ℕ};
ghost use Rattle.std.specs.Fn.{CalledAtTwo};
ghost use Rattle.std.specs.Option.{option_copied};
ghost use Rattle.raft_base.specs.declared.entry_index.EntryIndex.{EntryIndex};
ghost use Rattle.raft_table.specs.Scan.{VisitsUntilFalse, pairs_between};
ghost use Rattle.raft_table.specs.TableEntries.{entry_at};
ghost use Rattle.raft_engine_prefixes.specs.Contents.{AreBothTold};
ghost use Rattle.raft_engine.specs.EntryReads.{AreFetched, AreUnfetched, IsEntryGot, IsEntryUnread};
ghost use Rattle.raft_engine.specs.KeptEngine.{table_in};
ghost use Rattle.raft_engine.specs.Moved.{IsOnlyRead};

use super::Engine;
use crate::block_reads::{read_entries, read_one_entry};
use crate::moved::moves_are_stored;
use raft_base::{EntryIndex, Result};
use raft_engine_prefixes::contents::told_contents_are_those_that_were_added;
use raft_files::EngineFiles;

impl<F: EngineFiles> Engine<F> {
    /// Reads the bytes of the entry of a region with the index `index`: reads its block, and tests the block's checksum.
    /// Returns `None`, without a read, if the region has no such entry. An engine that isn't intact may be read too: its
    /// entries are those that were applied.
    ///
    /// # Errors
    ///
    /// Those of `EngineFiles::read`; `Corruption` if what stands at the entry's place is no sound block with its bytes: its
    /// text begins with the region, the index, and the file and the offset of the block, as in `region 7, index 12, append
    /// file 3, offset 4096: ..`; `Memory`. Only reads were asked then, and the engine is as intact as it was.
    pub fn get_entry(&mut self, region: u64, index: u64) -> Result<Option<Vec<u8>>>
        ensures only { IsOnlyRead self.old self.new }
        ensures ok { IfOk result (λ found. IsEntryGot (entry_at index (table_in self.old region).entries)
            (option_map (λ bytes. bytes.items) found) self.old.asks self.new.asks) }

        // The bytes are the entry's contents, whichever are told by what was asked.
        ensures contents { IfOk result (λ found. (content : EntryIndex → List ℕ)
            → AreBothTold self.new.asks content
            → option_map (λ bytes. bytes.items) found
            ≡ option_map content (entry_at index (table_in self.old region).entries)) }
        ensures err { IfErr result (IsEntryUnread F.may_fail region (entry_at index (table_in self.old region).entries)
            self.old.asks self.new.asks) }
    {
        moves_are_stored();
        told_contents_are_those_that_were_added();
        let Some(entry) = self.entry_index(region, index) else {
            return Ok(None);
        };
        let bytes = read_one_entry(self.append.allocator(), &mut self.files, region, &entry)?;
        Ok(Some(bytes))
    }

    /// Reads the entries of a region from `begin` on and below `end`, appends the bytes of each to `entries`, in order, and
    /// returns how many there are. With a maximal size it stops before the first entry with which the total of lengths passes
    /// that size and exceeds the entry's own length. A block that holds several neighbors is read once. If the region has no
    /// table, nothing is read and 0 is returned. An engine that isn't intact may be read too: its entries are those that were
    /// applied.
    ///
    /// # Errors
    ///
    /// If the range isn't empty: `EntryNotFound` if the table has no entries, `EntryCompacted` if the range begins below the
    /// first one, `EntryNotFound` if `end` is above their end. Nothing is read then. Those of `EngineFiles::read`;
    /// `Corruption` if what stands at the place of an entry is no sound block with its bytes, with a text as that of
    /// [`Engine::get_entry`]; `Memory`. Only reads were asked then. After each error the engine is as intact as it was, and
    /// `entries` is unchanged.
    pub fn fetch_entries_to(
        &mut self,
        region: u64,
        begin: u64,
        end: u64,
        max_size: Option<usize>,
        entries: &mut Vec<Vec<u8>>,
    ) -> Result<usize>
        ensures only { IsOnlyRead self.old self.new }
        ensures ok { IfOk result (λ count. AreFetched region begin end max_size count
            (map (λ bytes. bytes.items) entries.old.items) (map (λ bytes. bytes.items) entries.new.items)
            self.old self.new) }
        ensures unchanged { OnErr result (entries.new.items ≡ entries.old.items) }
        ensures err { IfErr result (AreUnfetched F.may_fail region begin end max_size self.old self.new) }
    {
        moves_are_stored();
        told_contents_are_those_that_were_added();
        let alloc = self.append.allocator();
        let Some(table) = self.accessor.get(region) else {
            return Ok(0);
        };
        let mut indexes = Vec::new(alloc);
        table.fetch_entries_to(begin, end, max_size, &mut indexes)?;
        if indexes.is_empty() {
            return Ok(0);
        }
        let mut found = read_entries(alloc, &mut self.files, region, indexes.as_slice())?;
        entries.append(&mut found)?;
        Ok(indexes.len())
    }

    /// Calls `visit` with each key of a region from `start` on and below `end`, and its value, until it returns `false`. It
    /// goes in the order of the keys or, with `reverse`, from the last one back. A bound that is `None` leaves its side open.
    /// If `start` is above `end`, or the region has no table, nothing is visited. It returns `Ok` always.
    pub fn scan<V: FnMut(&[u8], &[u8]) -> bool>(
        &self,
        region: u64,
        start: Option<&[u8]>,
        end: Option<&[u8]>,
        reverse: bool,
        visit: V,
    ) -> Result<()>
        requires { V.IsAlwaysCallable visit }
        ensures ok { IsOk result }
        ensures visits { (last : V)
            × VisitsUntilFalse (CalledAtTwo V.FnMut) visit (pairs_between (option_copied start.entry)
            (option_copied end.entry) reverse (table_in self.now region).keys) last }
    {
        match self.accessor.get(region) {
            Some(table) => table.scan(start, end, reverse, visit),
            None => Ok(()),
        }
    }

    /// Returns the entry of a region with the index `index`, with its place; `None` if there is none.
    fn entry_index(&self, region: u64, index: u64) -> Option<EntryIndex>
        ensures { result ≡ entry_at index (table_in self.now region).entries }
    {
        self.accessor.get(region)?.get_entry(index)
    }
}
