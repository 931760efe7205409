//! The last file of a queue, and what a crash leaves of it.

use raft_base::{FileId, Result};
use raft_samples::Dice;
use std::alloc::Global;

/// The last file of a queue. Those before it were synced when it was begun.
#[derive(Drop)]
pub(crate) struct Tail {
    /// Which file it is.
    pub(crate) id: FileId,
    /// Its bytes, also those that aren't synced.
    bytes: Vec<u8>,
    /// Where each batch ends.
    ends: Vec<usize>,
    /// How many bytes were synced.
    synced: usize,
}

impl Tail {
    /// Returns the file `id`, which is empty.
    pub(crate) fn new(alloc: Global, id: FileId) -> Tail {
        Tail {
            id,
            bytes: Vec::new(alloc),
            ends: Vec::new(alloc),
            synced: 0,
        }
    }

    /// Returns how many bytes the file has.
    pub(crate) fn len(&self) -> usize {
        self.bytes.len()
    }

    /// Appends `bytes`, those of one batch.
    ///
    /// # Errors
    ///
    /// `Memory` alone.
    pub(crate) fn append_batch(&mut self, bytes: &[u8]) -> Result<()> {
        self.bytes.extend_from_slice(bytes)?;
        Ok(self.ends.push(self.bytes.len())?)
    }

    /// Notes that all bytes survive a crash from now on.
    pub(crate) fn note_synced(&mut self) {
        self.synced = self.bytes.len();
    }

    /// Returns the first `len` bytes, or no bytes if there are fewer.
    pub(crate) fn prefix_bytes(&self, len: usize) -> &[u8] {
        self.bytes.get(..len).unwrap_or(b"")
    }

    /// Draws how many bytes a crash leaves: all, those that were synced, or these and some of the others, up
    /// to any byte or up to the end of a batch.
    pub(crate) fn draw_crash_len(&self, dice: &mut Dice) -> usize {
        let unsynced = self.bytes.len().saturating_sub(self.synced) as u64;
        let drawn = dice.draw_below(unsynced.saturating_add(1)) as usize;
        let len = self.synced.saturating_add(drawn);
        match dice.draw_below(4) {
            0 => self.bytes.len(),
            1 => self.synced,
            2 => self.whole_prefix_len(len),
            _ => len,
        }
    }

    /// Returns how many of the first `len` bytes belong to batches that are whole in them.
    fn whole_prefix_len(&self, len: usize) -> usize {
        let mut whole = 0;
        for end in &self.ends {
            if *end <= len {
                whole = *end;
            }
        }
        whole
    }

    /// Returns how many batches aren't whole in the first `len` bytes.
    pub(crate) fn count_batches_lost(&self, len: usize) -> usize {
        let mut lost = 0usize;
        for end in &self.ends {
            if *end > len {
                lost = lost.saturating_add(1);
            }
        }
        lost
    }

    /// Cuts the file after the last batch that is whole in its first `len` bytes, as a restart does after a
    /// crash that left these bytes. What is left counts as synced.
    pub(crate) fn cut_to_whole_batches(&mut self, len: usize) {
        let whole = self.whole_prefix_len(len);
        self.bytes.truncate(whole);
        self.ends.retain(|end: &usize| *end <= whole);
        self.synced = whole;
    }
}
