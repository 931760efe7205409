//! [`EntryIndex`]: where an entry of a region's log is stored.

ghost use Rattle.std.specs.Prelude.{◌↔◌, IsTrue};
ghost use Rattle.raft_base.specs.Runs.{IsConsecutive};

use crate::{CompressionType, FileBlockHandle};

/// The index of an entry of a region's log, and where its bytes are stored.
#[derive(Clone, Copy, PartialEq, Eq, Debug)]
pub struct EntryIndex {
    /// The index of the entry in its region's log.
    pub index: u64,
    /// The place of the entry block in which the entry is stored; `None` until the block's batch is written
    /// to a file. An entry block has the entries of one batch, one after the other, and their checksum.
    pub entries: Option<FileBlockHandle>,
    /// How the entry block is compressed.
    pub compression_type: CompressionType,
    /// The offset in bytes of the entry in its entry block.
    pub entry_offset: u32,
    /// The length of the entry in bytes.
    pub entry_len: u32,
}

impl Default for EntryIndex {
    ghost use Rattle.std.specs.Prelude.{◌≡◌};
    ghost use Rattle.raft_base.specs.NoEntry.{no_entry};

    ghost is_default = { λ e. e ≡ no_entry };

    /// Returns an entry with index 0, without bytes and without a place.
    fn default() -> EntryIndex {
        EntryIndex {
            index: 0,
            entries: None,
            compression_type: CompressionType::None,
            entry_offset: 0,
            entry_len: 0,
        }
    }
}

/// Tests whether the indexes of `entries` rise by one from each entry to the next, and none of them is 2^64 -
/// 1. Returns true if there are no entries. It allocates nothing.
pub fn is_consecutive(entries: &[EntryIndex]) -> bool
    ensures { IsTrue result ↔ IsConsecutive entries.now }
{
    let mut index = match entries.first() {
        Some(first) => first.index,
        None => return true,
    };
    for entry in entries {
        if entry.index != index || index == u64::MAX {
            return false;
        }
        index += 1;
    }
    true
}
