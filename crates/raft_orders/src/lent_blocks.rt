//! [`LentBlocks`]: bytes of files that the caller has lent before they are read.

ghost use Rattle.std.specs.Prelude.{◌≡◌, IfErr, IfOk, length};
ghost use Rattle.std.specs.BTreeMap.{IsEmpty};
ghost use Rattle.raft_orders.specs.Refusals.{IsUnread};

use raft_base::{Error, FileBlockHandle, FileId, Result};
use std::alloc::Global;
use std::collections::BTreeMap;

/// Bytes that were lent, by their file and their offset in it.
#[derive(Drop)]
pub struct LentBlocks {
    /// The lent bytes of each file and offset.
    blocks: BTreeMap<(FileId, u64), Vec<u8>>,
}

impl LentBlocks {
    /// Returns a store without bytes, which will allocate from `alloc`.
    pub fn new(alloc: Global) -> LentBlocks
        ensures { IsEmpty result.blocks }
    {
        LentBlocks {
            blocks: BTreeMap::new(alloc),
        }
    }

    /// Keeps a copy of `bytes`, which are in `file` from `offset` on, in place of those that were lent for
    /// the same file and offset.
    ///
    /// # Errors
    ///
    /// `Memory` alone.
    pub fn lend(&mut self, alloc: Global, file: FileId, offset: u64, bytes: &[u8]) -> Result<()>
        ensures memory { IfErr result (λ e. e ≡ Error.Memory) }
    {
        self.blocks
            .insert((file, offset), Vec::from_slice(alloc, bytes)?)?;
        Ok(())
    }

    /// Returns a copy of the bytes that were lent for `place`.
    ///
    /// # Errors
    ///
    /// `TryAgain` if no bytes were lent for the file and offset of `place`, or a different number of them;
    /// `Memory`.
    pub fn read(&self, alloc: Global, place: FileBlockHandle) -> Result<Vec<u8>>
        ensures len { IfOk result (λ bytes. length bytes.items ≡ place.len) }
        ensures fault { IfErr result IsUnread }
    {
        if let Some(bytes) = self.blocks.get(&(place.id, place.offset)) {
            if bytes.len() == place.len {
                return Ok(Vec::from_slice(alloc, bytes)?);
            }
        }
        Err(Error::TryAgain(String::new(alloc)))
    }

    /// Drops all lent bytes, so that a read returns `TryAgain`.
    pub fn clear(&mut self)
        ensures { IsEmpty self.new.blocks }
    {
        self.blocks.clear();
    }
}
