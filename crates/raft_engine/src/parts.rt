//! Dividing the entries of a region that move into parts, one for each batch.

ghost use Rattle.std.specs.Prelude.{◌≡◌, ◌<◌, ◌^◌, ◌↔◌, IsTrue};
ghost use Rattle.raft_engine.specs.Parts.{IsCapped, IsFirstBlock, IsFirstPart};

use crate::limits::MAX_REWRITE_BATCH_BYTES;
use raft_base::{EntryIndex, FileBlockHandle};

/// Returns how many of `entries`, from the first one on, go into the next batch. These are the entries of as many blocks as
/// have [`MAX_REWRITE_BATCH_BYTES`] together at most, and always those of the first block. 0 without entries.
pub fn count_in_next_part(entries: &[EntryIndex]) -> usize
    ensures { IsFirstPart entries.now result }
{
    let mut len = 0;
    let mut bytes = 0;
    let mut rest = entries;
    while !rest.is_empty() {
        let count = count_in_first_block(rest);
        let (block, behind) = rest.split_at(count);
        bytes += sum_entry_bytes(block);
        if len > 0 && bytes > MAX_REWRITE_BATCH_BYTES {
            return len;
        }
        len += count;
        rest = behind;
    }
    len
}

/// Returns how many of `entries`, from the first one on, stand in the block of the first entry. It stops at the first one in
/// another block.
fn count_in_first_block(entries: &[EntryIndex]) -> usize
    ensures { IsFirstBlock entries.now result }
{
    let Some(first) = entries.first() else {
        return 0;
    };
    let mut len = 0;
    for entry in entries {
        if !is_in_block(entry, first.entries) {
            return len;
        }
        len += 1;
    }
    len
}

/// Tests whether the entry stands in the block at `place`; for `None` whether it has no place.
fn is_in_block(entry: &EntryIndex, place: Option<FileBlockHandle>) -> bool
    ensures { IsTrue result ↔ (entry.now.entries ≡ place) }
{
    entry.entries == place
}

/// Returns how many bytes `entries` have together. If these are more than [`MAX_REWRITE_BATCH_BYTES`], it returns some number
/// above that.
pub(crate) fn sum_entry_bytes(entries: &[EntryIndex]) -> u64
    ensures capped { IsCapped result entries.now }
    ensures small { result < 2 ^ 33 }
{
    let mut bytes = 0;
    for entry in entries {
        if bytes > MAX_REWRITE_BATCH_BYTES {
            return bytes;
        }
        bytes += entry_byte_count(entry);
    }
    bytes
}

/// Returns how many bytes an entry has.
fn entry_byte_count(entry: &EntryIndex) -> u64
    ensures len { result ≡ entry.now.entry_len }
    ensures small { result < 2 ^ 32 }
{
    u64::from(entry.entry_len)
}
