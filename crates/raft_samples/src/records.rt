//! [`Records`]: the records of regions in plain maps. The calls fail for lack of memory alone.

use crate::proposal::Proposal;
use raft_base::{EntryIndex, Error, Result, crc32};
use raft_memtable::MemTable;
use std::alloc::Global;
use std::collections::BTreeMap;

/// The records of regions, by the ids of the regions.
pub type Contents = BTreeMap<u64, Records>;

/// The entries and the key values of a region.
#[derive(Drop)]
pub struct Records {
    /// The bytes of each entry, by its index.
    pub entries: BTreeMap<u64, Vec<u8>>,
    /// The value of each key.
    pub pairs: BTreeMap<Vec<u8>, Vec<u8>>,
}

/// The most bytes that are printed as they are.
const MOST_PRINTED_BYTES: usize = 40;

impl Records {
    /// Returns the records of a region that has none. They will allocate from `alloc`.
    pub fn new(alloc: Global) -> Records {
        Records {
            entries: BTreeMap::new(alloc),
            pairs: BTreeMap::new(alloc),
        }
    }

    /// Adds `proposals` as entries, each in place of the one at its index.
    ///
    /// # Errors
    ///
    /// `Memory` alone. Some of them may have been added then.
    pub fn put_entries(&mut self, proposals: Vec<Proposal>) -> Result<()> {
        for proposal in proposals {
            let _ = self.entries.insert(proposal.index, proposal.text)?;
        }
        Ok(())
    }

    /// Drops the entries at or above the index of the first of `proposals`, and adds `proposals`. If there
    /// are none, nothing changes.
    ///
    /// # Errors
    ///
    /// `Memory` alone. Entries may have been dropped then, and some of the new ones added.
    pub(crate) fn replace_entries(&mut self, proposals: Vec<Proposal>) -> Result<()> {
        if let Some(first) = proposals.first() {
            self.truncate(first.index);
        }
        self.put_entries(proposals)
    }

    /// Adds copies of the key values of `table`, each in place of the one of the same key.
    ///
    /// # Errors
    ///
    /// `Memory` alone. Some of them may have been added then.
    pub fn put_pairs_of_table(&mut self, alloc: Global, table: &MemTable) -> Result<()> {
        let mut pairs = Vec::new(alloc);
        table.fetch_kvs_before(u64::MAX, &mut pairs)?;
        table.fetch_rewritten_kvs(&mut pairs)?;
        for (key, value) in pairs {
            let _ = self.pairs.insert(key, value)?;
        }
        Ok(())
    }

    /// Returns the index of the first entry, or `None` if there are no entries.
    pub(crate) fn first_index(&self) -> Option<u64> {
        Some(*self.entries.first_key_value()?.0)
    }

    /// Returns the index after that of the last entry, or 0 if there are no entries.
    pub fn end_index(&self) -> u64 {
        match self.entries.last_key_value() {
            Some((last, _)) => last.saturating_add(1),
            None => 0,
        }
    }

    /// Drops the entries at or above the index `first`.
    pub(crate) fn truncate(&mut self, first: u64) {
        self.entries
            .retain(|index: &u64, _: &mut Vec<u8>| *index < first);
    }

    /// Drops the entries below the index `first`.
    pub(crate) fn compact(&mut self, first: u64) {
        self.entries
            .retain(|index: &u64, _: &mut Vec<u8>| *index >= first);
    }

    /// Drops all entries and key values.
    pub(crate) fn clear(&mut self) {
        self.entries.clear();
        self.pairs.clear();
    }

    /// Appends a line to `text`: `  region R:`, then each entry as ` INDEX BYTES`, and each key value as
    /// ` KEY=VALUE`. Appends nothing if there are neither.
    ///
    /// # Errors
    ///
    /// `Memory` alone. A part of the line may have been appended then.
    fn push_region_line(&self, region: u64, text: &mut String) -> Result<()> {
        if self.entries.is_empty() && self.pairs.is_empty() {
            return Ok(());
        }
        write!(text, "  region {region}:")?;
        for (index, bytes) in &self.entries {
            write!(text, " {index} ")?;
            push_bytes_or_checksum(bytes, text)?;
        }
        for (key, value) in &self.pairs {
            text.push(' ')?;
            push_bytes_or_checksum(key, text)?;
            text.push('=')?;
            push_bytes_or_checksum(value, text)?;
        }
        Ok(text.push('\n')?)
    }
}

/// Returns the records of `region` in `contents`, to be changed. If the region isn't there, it is added
/// without records.
///
/// # Errors
///
/// `Memory` alone.
pub fn get_or_insert_records(
    alloc: Global,
    contents: &mut Contents,
    region: u64,
) -> Result<&mut Records> {
    if !contents.contains_key(&region) {
        let _ = contents.insert(region, Records::new(alloc))?;
    }
    contents.get_mut(&region).ok_or(Error::Failed)
}

/// Returns all entries of `table`, with their places.
///
/// # Errors
///
/// `Memory` alone.
pub fn table_entries(alloc: Global, table: &MemTable) -> Result<Vec<EntryIndex>> {
    let mut entries = Vec::new(alloc);
    let first = table.first_index().unwrap_or(0);
    table.fetch_entries_to(first, table.end(), None, &mut entries)?;
    Ok(entries)
}

/// Returns a line for each region of `contents` that has records. Different records give different texts,
/// except where long bytes are told only by their number and checksum.
///
/// # Errors
///
/// `Memory` alone.
pub fn describe_contents(alloc: Global, contents: &Contents) -> Result<String> {
    let mut text = String::new(alloc);
    for (region, records) in contents {
        records.push_region_line(*region, &mut text)?;
    }
    Ok(text)
}

/// Appends `bytes` to `text`: as they are if they are at most 40 letters and digits; else their number and
/// checksum, such as `(300 bytes, 3421780262)`.
///
/// # Errors
///
/// `Memory` alone. A part of the text may have been appended then.
fn push_bytes_or_checksum(bytes: &[u8], text: &mut String) -> Result<()> {
    if bytes.len() <= MOST_PRINTED_BYTES && bytes.iter().all(|byte| byte.is_ascii_alphanumeric()) {
        for byte in bytes {
            text.push(char::from(*byte))?;
        }
        return Ok(());
    }
    Ok(write!(text, "({} bytes, {})", bytes.len(), crc32(bytes))?)
}
