//! What a disk holds of a store's files, and what a crash leaves of them.

use crate::crashes::crash::{CRASHED, Crashes};
use crate::crashes::tail::Tail;
use crate::folder_pipe::{FileChange, file_path};
use crate::store::Host;
use raft_base::{FileId, FileSeq, LogQueue, Result};
use raft_samples::Dice;
use std::alloc::Global;
use std::{fs, mem};

/// The files of both queues: the older ones stand in the folder of crashes, the last one of each queue is
/// kept here. A crash leaves what was synced, and of what was written since then a prefix, of each queue by
/// itself.
#[derive(Drop)]
pub(crate) struct DiskNotes {
    alloc: Global,
    /// The number of the first file of the append queue, and of the rewrite queue.
    least: (FileSeq, FileSeq),
    /// The last append file.
    append: Tail,
    /// The last rewrite file.
    rewrite: Tail,
    /// The text of what the store had at the last sync of the append queue, and after each batch since then.
    prefix_texts: Vec<String>,
}

impl DiskNotes {
    /// Returns the notes of a disk that has an empty file of each queue, numbered `first`, and of a store
    /// without records.
    ///
    /// # Errors
    ///
    /// `Memory` alone.
    pub(crate) fn new(alloc: Global, first: FileSeq) -> Result<DiskNotes> {
        Ok(DiskNotes {
            alloc,
            least: (first, first),
            append: Tail::new(alloc, FileId::new(LogQueue::Append, first)),
            rewrite: Tail::new(alloc, FileId::new(LogQueue::Rewrite, first)),
            prefix_texts: vec![in alloc; String::new(alloc)]?,
        })
    }

    /// Returns the last file of `queue`, to be changed.
    fn tail_mut(&mut self, queue: LogQueue) -> &mut Tail {
        match queue {
            LogQueue::Append => &mut self.append,
            LogQueue::Rewrite => &mut self.rewrite,
        }
    }

    /// Applies `change`, which the store made to its files, to the disk, and tries crashes on the way. `new`
    /// is the text of what the store has after all its changes. A difference is counted and printed, and is
    /// no error.
    ///
    /// # Errors
    ///
    /// `Io` for a file or the output; `Memory`.
    pub(crate) fn apply_change<R: Host + Print>(
        &mut self,
        crashes: &mut Crashes<'_, R>,
        dice: &mut Dice,
        change: FileChange,
        new: &str,
    ) -> Result<()> {
        match change {
            FileChange::Written(id, bytes) => self.append_batch(crashes, dice, id, &bytes, new),
            FileChange::Synced(queue) => self.note_synced(queue),
            FileChange::Begun(id) => self.begin_file(crashes.rt, id),
            FileChange::DeletedBelow(id) => self.delete_files_below(crashes, dice, id),
        }
    }

    /// Appends `bytes`, those of a batch, to the last file of a queue, which is `id`. If `crashes.each_byte`,
    /// tries a crash before each of these bytes. After that, in any case, it tries one drawn crash, which
    /// leaves a part of what isn't synced in each queue. If `id` is an append file, `new` is the text of what
    /// the store has with the batch. If `id` isn't the last file of its queue, this counts as a difference,
    /// and nothing is appended or tried.
    ///
    /// # Errors
    ///
    /// `Io` for a file or the output; `Memory`.
    fn append_batch<R: Host + Print>(
        &mut self,
        crashes: &mut Crashes<'_, R>,
        dice: &mut Dice,
        id: FileId,
        bytes: &[u8],
        new: &str,
    ) -> Result<()> {
        let tail = self.tail_mut(id.queue);
        if tail.id != id {
            return crashes.compare_texts("written to another file than the last", "");
        }
        let old = tail.len();
        tail.append_batch(bytes)?;
        if id.queue == LogQueue::Append {
            self.prefix_texts.push(copy_text(self.alloc, new)?)?;
        }
        if crashes.each_byte {
            self.try_each_byte(crashes, id.queue, old)?;
        }
        self.try_drawn_crash(crashes, dice)
    }

    /// Tries a crash that leaves `len` bytes of the last file of `queue`, for each `len` from `old` on that
    /// is less than all. Everything of the other queue is left.
    ///
    /// # Errors
    ///
    /// `Io` for a file or the output; `Memory`.
    fn try_each_byte<R: Host + Print>(
        &mut self,
        crashes: &mut Crashes<'_, R>,
        queue: LogQueue,
        old: usize,
    ) -> Result<()> {
        for len in old..self.tail_mut(queue).len() {
            match queue {
                LogQueue::Append => self.try_crash(crashes, 1, len, self.rewrite.len())?,
                LogQueue::Rewrite => self.try_crash(crashes, 1, self.append.len(), len)?,
            }
        }
        Ok(())
    }

    /// Tries one crash that leaves a drawn part of what isn't synced in each queue. In one of eight cases
    /// four workers recover the tables, else one does.
    ///
    /// # Errors
    ///
    /// `Io` for a file or the output; `Memory`.
    fn try_drawn_crash<R: Host + Print>(
        &self,
        crashes: &mut Crashes<'_, R>,
        dice: &mut Dice,
    ) -> Result<()> {
        let (append, rewrite) = (
            self.append.draw_crash_len(dice),
            self.rewrite.draw_crash_len(dice),
        );
        let workers = if dice.draw_one_in(8) { 4 } else { 1 };
        self.try_crash(crashes, workers, append, rewrite)
    }

    /// Writes the first `append` bytes of the last append file and the first `rewrite` bytes of the last
    /// rewrite file to the folder of crashes, and opens it by `workers` workers
    /// ([`Crashes::reopen_and_compare`]).
    ///
    /// # Errors
    ///
    /// `Io` for a file or the output; `Memory`.
    fn try_crash<R: Host + Print>(
        &self,
        crashes: &mut Crashes<'_, R>,
        workers: usize,
        append: usize,
        rewrite: usize,
    ) -> Result<()> {
        self.write_prefix(crashes.rt, &self.append, append)?;
        self.write_prefix(crashes.rt, &self.rewrite, rewrite)?;
        crashes.reopen_and_compare(workers, self.expected_text_of_prefix(append))
    }

    /// Writes the first `len` bytes of `tail`, the last file of a queue, to the folder of crashes.
    ///
    /// # Errors
    ///
    /// `Io` for the file; `Memory`.
    fn write_prefix<R: Host>(&self, rt: &R, tail: &Tail, len: usize) -> Result<()> {
        let path = file_path(self.alloc, CRASHED, tail.id)?;
        Ok(fs::write(rt, path.as_str(), tail.prefix_bytes(len))?)
    }

    /// Returns the text of what the store must have if the first `append` bytes of the last append file are
    /// left.
    fn expected_text_of_prefix(&self, append: usize) -> &str {
        let lost = self.append.count_batches_lost(append).saturating_add(1);
        match self
            .prefix_texts
            .get(self.prefix_texts.len().saturating_sub(lost))
        {
            Some(prefix) => prefix.as_str(),
            None => "",
        }
    }

    /// Notes that all bytes in the last file of `queue` survive a crash from now on.
    ///
    /// # Errors
    ///
    /// `Memory` alone.
    fn note_synced(&mut self, queue: LogQueue) -> Result<()> {
        self.tail_mut(queue).note_synced();
        if queue == LogQueue::Append {
            let prefix = copy_text(self.alloc, self.expected_text_of_prefix(usize::MAX))?;
            self.prefix_texts = vec![in self.alloc; prefix]?;
        }
        Ok(())
    }

    /// Begins the file `id`, the next one of its queue. All bytes in the files before it survive a crash from
    /// now on, and the file right before it is written to the folder of crashes.
    ///
    /// # Errors
    ///
    /// `Io` for that file; `Memory`.
    fn begin_file<R: Host>(&mut self, rt: &R, id: FileId) -> Result<()> {
        self.note_synced(id.queue)?;
        let alloc = self.alloc;
        let old = mem::replace(self.tail_mut(id.queue), Tail::new(alloc, id));
        self.write_prefix(rt, &old, old.len())
    }

    /// Deletes the files below `id` of its queue from the folder of crashes, the oldest first, and tries a
    /// crash after each.
    ///
    /// # Errors
    ///
    /// `Io` for a file or the output; `Memory`.
    fn delete_files_below<R: Host + Print>(
        &mut self,
        crashes: &mut Crashes<'_, R>,
        dice: &mut Dice,
        id: FileId,
    ) -> Result<()> {
        let (append, rewrite) = self.least;
        let first = match id.queue {
            LogQueue::Append => append,
            LogQueue::Rewrite => rewrite,
        };
        for seq in first..id.seq {
            let path = file_path(self.alloc, CRASHED, FileId::new(id.queue, seq))?;
            fs::remove_file(crashes.rt, path.as_str())?;
            self.try_drawn_crash(crashes, dice)?;
        }
        // (a table's least file may be that of its group's first batch, which is gone)
        let least = first.max(id.seq);
        match id.queue {
            LogQueue::Append => self.least = (least, rewrite),
            LogQueue::Rewrite => self.least = (append, least),
        }
        Ok(())
    }

    /// Draws what a crash leaves of the last file of each queue, and drops the rest from these notes. Returns
    /// the last append file and the last rewrite file, each with how many bytes are left of it, and the text
    /// of what the store must then have.
    ///
    /// # Errors
    ///
    /// `Memory` alone.
    pub(crate) fn draw_crash(
        &mut self,
        dice: &mut Dice,
    ) -> Result<((FileId, usize), (FileId, usize), String)> {
        let (append, rewrite) = (
            self.append.draw_crash_len(dice),
            self.rewrite.draw_crash_len(dice),
        );
        let prefix = copy_text(self.alloc, self.expected_text_of_prefix(append))?;
        self.append.cut_to_whole_batches(append);
        self.rewrite.cut_to_whole_batches(rewrite);
        self.prefix_texts = vec![in self.alloc; copy_text(self.alloc, &prefix)?]?;
        Ok(((self.append.id, append), (self.rewrite.id, rewrite), prefix))
    }
}

/// Returns a copy of `text`.
///
/// # Errors
///
/// `Memory` alone.
fn copy_text(alloc: Global, text: &str) -> Result<String> {
    Ok(format!(in alloc; "{text}")?)
}
