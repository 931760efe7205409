//! What a disk holds of the files of one queue, and what a crash may leave of them.

use crate::noted_files::{Act, LogFiles};
use raft_base::Result;
use raft_samples::Dice;
use std::alloc::Global;

/// The files of a queue on a disk. A crash leaves what was synced. Of what was asked since the last sync it
/// leaves a prefix: of the bytes that were put, of the deletions, and a new file or not.
#[derive(Drop)]
pub(crate) struct QueueDisk {
    /// All files, with all bytes that were put, and with the oldest files whose deletion wasn't synced.
    files: LogFiles,
    /// How many deletions weren't synced.
    deleted: usize,
    /// How many bytes of the last file were synced.
    pub(crate) synced: usize,
    /// How many of those bytes belong to whole batches: fewer than all where a crash left a torn one.
    whole: usize,
    /// Where each batch ends in the last file that was put there since the last sync.
    pub(crate) ends: Vec<usize>,
    /// Whether the last file was begun since the last sync.
    is_new: bool,
    /// What the last file had before a cut that wasn't synced.
    uncut: Option<Vec<u8>>,
}

/// What a crash leaves of a queue's last file.
#[derive(Clone, Copy)]
pub(crate) enum Tail {
    /// So many bytes, from the first one on.
    Prefix(usize),
    /// Nothing: the file, which is new, isn't there.
    Unbegun,
    /// The bytes that it had before a cut.
    Uncut,
}

/// What a crash leaves of a queue: all files but the `gone` oldest ones, and of the last file what `tail`
/// says.
#[derive(Clone, Copy)]
pub(crate) struct Rest {
    /// How many of the oldest files are gone.
    gone: usize,
    /// What is left of the last file.
    tail: Tail,
}

impl QueueDisk {
    /// Returns a disk on which the queue has no files.
    pub(crate) fn new(alloc: Global) -> QueueDisk {
        QueueDisk {
            files: Vec::new(alloc),
            deleted: 0,
            synced: 0,
            whole: 0,
            ends: Vec::new(alloc),
            is_new: false,
            uncut: None,
        }
    }

    /// Returns the disk after a crash that leaves `left`. All that is left counts as synced.
    ///
    /// # Errors
    ///
    /// `Memory` alone.
    pub(crate) fn disk_after_crash(&self, left: Rest) -> Result<QueueDisk> {
        let mut disk = QueueDisk::new(self.alloc());
        disk.files = self.copy_files_left(left)?;
        disk.synced = disk.last_file_len();
        disk.whole = self.whole_batches_len(left).min(disk.synced);
        Ok(disk)
    }

    /// Returns the allocator of the files.
    pub(crate) fn alloc(&self) -> Global {
        *self.files.allocator()
    }

    /// Returns how many bytes the last file has, or 0 if there are no files.
    fn last_file_len(&self) -> usize {
        self.files.last().map_or(0, |file| file.1.len())
    }

    /// Applies `act` to the files. After a sync all bytes, and all deletions before it, survive a crash;
    /// after a new file was begun, the bytes of the older files do.
    ///
    /// # Errors
    ///
    /// `Memory` alone. The files may have been changed then.
    pub(crate) fn apply_act(&mut self, act: &Act) -> Result<()> {
        match act {
            Act::Put(bytes) => self.append_batch(bytes)?,
            Act::Begin(seq) => {
                let file = Vec::new(self.alloc());
                self.files.push((*seq, file))?;
                self.note_synced_len(0);
                self.is_new = true;
            }
            Act::Sync => {
                self.drop_deleted_files();
                let len = self.last_file_len();
                self.note_synced_len(len);
            }
            Act::Delete => self.deleted = self.deleted.saturating_add(1),
            Act::Cut(len) => self.cut_last_file(*len as usize)?,
        }
        Ok(())
    }

    /// Appends `bytes`, those of a batch, to the last file. Does nothing if there are no files.
    ///
    /// # Errors
    ///
    /// `Memory` alone.
    fn append_batch(&mut self, bytes: &[u8]) -> Result<()> {
        if let Some(last) = self.files.last_mut() {
            last.1.extend_from_slice(bytes)?;
            self.ends.push(last.1.len())?;
        }
        Ok(())
    }

    /// Notes that the last file, and its first `synced` bytes, survive a crash from now on.
    fn note_synced_len(&mut self, synced: usize) {
        self.synced = synced;
        self.whole = synced;
        self.ends.clear();
        self.is_new = false;
        self.uncut = None;
    }

    /// Drops the files that were deleted: their deletion survives a crash from now on.
    fn drop_deleted_files(&mut self) {
        for _ in 0..self.deleted {
            if !self.files.is_empty() {
                let _ = self.files.remove(0);
            }
        }
        self.deleted = 0;
    }

    /// Cuts the last file to `len` bytes, and keeps what it had before: until the next sync or new file a
    /// crash may bring that back. Does nothing if there are no files.
    ///
    /// # Errors
    ///
    /// `Memory` alone.
    fn cut_last_file(&mut self, len: usize) -> Result<()> {
        let alloc = self.alloc();
        if let Some(last) = self.files.last_mut() {
            let uncut = Vec::from_slice(alloc, &last.1)?;
            last.1.truncate(len);
            self.note_synced_len(len);
            self.uncut = Some(uncut);
        }
        Ok(())
    }

    /// Returns what a crash leaves that loses nothing.
    pub(crate) fn lossless_rest(&self) -> Rest {
        self.rest_with_prefix(self.last_file_len())
    }

    /// Returns what a crash leaves that loses no deletion, and leaves the first `len` bytes of the last file.
    pub(crate) fn rest_with_prefix(&self, len: usize) -> Rest {
        Rest {
            gone: self.deleted,
            tail: Tail::Prefix(len),
        }
    }

    /// Draws what a crash leaves: how many of the unsynced deletions it doesn't lose, and what of the last
    /// file.
    pub(crate) fn draw_rest(&self, dice: &mut Dice) -> Rest {
        let gone = dice.draw_below((self.deleted as u64).saturating_add(1)) as usize;
        Rest {
            gone,
            tail: self.draw_tail(dice),
        }
    }

    /// Draws what a crash leaves of the last file. Mostly that is a prefix that ends between batches, inside
    /// one, at the synced bytes or at the end. Sometimes it is nothing, if the file is new, or the bytes
    /// before a cut, if it was cut.
    fn draw_tail(&self, dice: &mut Dice) -> Tail {
        let unsynced = self.last_file_len().saturating_sub(self.synced) as u64;
        let drawn = dice.draw_below(unsynced.saturating_add(1)) as usize;
        let len = self.synced.saturating_add(drawn);
        match dice.draw_below(8) {
            0 | 1 if self.is_new => Tail::Unbegun,
            0 | 1 if self.uncut.is_some() => Tail::Uncut,
            2 | 3 => Tail::Prefix(self.synced),
            4 => Tail::Prefix(len),
            5 | 6 => Tail::Prefix(self.whole_prefix_len(len)),
            _ => Tail::Prefix(self.last_file_len()),
        }
    }

    /// Returns what a crash may leave. First come those rests that lose some of the deletions and nothing
    /// else. Then, with no deletion lost, come no last file if it is new, the bytes before a cut if there was
    /// one, and each prefix of the last file that has all but its last batch at least.
    ///
    /// # Errors
    ///
    /// `Memory` alone.
    pub(crate) fn possible_rests(&self) -> Result<Vec<Rest>> {
        let mut rests = Vec::new(self.alloc());
        let gone = self.deleted;
        for gone in 0..gone {
            rests.push(Rest {
                gone,
                tail: Tail::Prefix(self.last_file_len()),
            })?;
        }
        if self.is_new {
            rests.push(Rest {
                gone,
                tail: Tail::Unbegun,
            })?;
        }
        if self.uncut.is_some() {
            rests.push(Rest {
                gone,
                tail: Tail::Uncut,
            })?;
        }
        let begin = self.whole_prefix_len(self.last_file_len().saturating_sub(1));
        for len in begin..=self.last_file_len() {
            rests.push(self.rest_with_prefix(len))?;
        }
        Ok(rests)
    }

    /// Returns how many of the first `len` bytes of the last file belong to batches that are whole in them.
    fn whole_prefix_len(&self, len: usize) -> usize {
        let mut whole = self.whole;
        for end in &self.ends {
            if *end <= len {
                whole = *end;
            }
        }
        whole
    }

    /// Returns how many of the unsynced batches are whole in `left`.
    pub(crate) fn count_whole_batches(&self, left: Rest) -> usize {
        let Tail::Prefix(len) = left.tail else {
            return 0;
        };
        self.ends.iter().filter(|end| **end <= len).count()
    }

    /// Returns copies of the files that are in `left`, with the bytes that are left of the last one.
    ///
    /// # Errors
    ///
    /// `Memory` alone.
    pub(crate) fn copy_files_left(&self, left: Rest) -> Result<LogFiles> {
        let alloc = self.alloc();
        let mut files = Vec::new(alloc);
        for (seq, bytes) in self.files.iter().skip(left.gone) {
            files.push((*seq, Vec::from_slice(alloc, bytes)?))?;
        }
        match left.tail {
            Tail::Prefix(len) => {
                if let Some(last) = files.last_mut() {
                    last.1.truncate(len);
                }
            }
            Tail::Unbegun => {
                let _ = files.pop();
            }
            Tail::Uncut => {
                if let (Some(last), Some(uncut)) = (files.last_mut(), &self.uncut) {
                    last.1 = Vec::from_slice(alloc, uncut)?;
                }
            }
        }
        Ok(files)
    }

    /// Returns how many bytes of the last file in `left` belong to whole batches. If `left` doesn't have the
    /// last file, it returns 2^64 - 1, which stands for no limit.
    fn whole_batches_len(&self, left: Rest) -> usize {
        match left.tail {
            Tail::Prefix(len) => self.whole_prefix_len(len),
            Tail::Uncut => self.whole,
            Tail::Unbegun => usize::MAX,
        }
    }

    /// Returns copies of the files, the last one cut after the synced batches that are whole.
    ///
    /// # Errors
    ///
    /// `Memory` alone.
    pub(crate) fn copy_untorn_files(&self) -> Result<LogFiles> {
        self.copy_files_left(self.rest_with_prefix(self.whole))
    }
}
