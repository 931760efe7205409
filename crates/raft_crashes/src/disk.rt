//! What a disk holds of the files of both queues, and what a crash may leave of them.

use crate::noted_files::{Act, Ask, LogFiles};
use crate::queue_disk::{QueueDisk, Rest};
use raft_base::{LogQueue, Result};
use raft_samples::Dice;
use std::alloc::Global;

/// The length of the header of a batch, in bytes.
const HEADER_LEN: usize = 16;

/// What a crash leaves of the files of both queues. What is left of one says nothing of the other.
#[derive(Clone, Copy)]
pub(crate) struct Crash {
    /// What is left of the append queue.
    append: Rest,
    /// What is left of the rewrite queue.
    rewrite: Rest,
}

/// The files of both queues on a disk, and which records they give.
#[derive(Drop)]
pub(crate) struct Disk {
    append: QueueDisk,
    rewrite: QueueDisk,
    /// The text of all records: first with the synced batches of the append queue, then with each further
    /// batch.
    prefix_records: Vec<String>,
}

impl Disk {
    /// Returns a disk without files and records.
    ///
    /// # Errors
    ///
    /// `Memory` alone.
    pub(crate) fn new(alloc: Global) -> Result<Disk> {
        Ok(Disk {
            append: QueueDisk::new(alloc),
            rewrite: QueueDisk::new(alloc),
            prefix_records: vec![in alloc; String::new(alloc)]?,
        })
    }

    /// Returns the disk after `crash`: with the files that it leaves, and the records that those batches give
    /// which it leaves of the append queue.
    ///
    /// # Errors
    ///
    /// `Memory` alone.
    pub(crate) fn disk_after_crash(&self, crash: Crash) -> Result<Disk> {
        let alloc = self.append.alloc();
        let records = match self
            .prefix_records
            .get(self.append.count_whole_batches(crash.append))
        {
            Some(records) => String::from_str(alloc, records)?,
            None => String::new(alloc),
        };
        Ok(Disk {
            append: self.append.disk_after_crash(crash.append)?,
            rewrite: self.rewrite.disk_after_crash(crash.rewrite)?,
            prefix_records: vec![in alloc; records]?,
        })
    }

    /// Returns what the disk holds of `queue`.
    fn queue_disk(&self, queue: LogQueue) -> &QueueDisk {
        match queue {
            LogQueue::Append => &self.append,
            LogQueue::Rewrite => &self.rewrite,
        }
    }

    /// Applies `ask`, a call of an engine on its files, to the disk. If it puts a batch in the append queue,
    /// `records` is the text of all records with that batch; otherwise `records` isn't used.
    ///
    /// # Errors
    ///
    /// `Memory` alone. The files may have been changed then.
    pub(crate) fn apply_ask(&mut self, ask: &Ask, records: &str) -> Result<()> {
        match ask.queue {
            LogQueue::Append => self.append.apply_act(&ask.act)?,
            LogQueue::Rewrite => self.rewrite.apply_act(&ask.act)?,
        }
        if ask.queue == LogQueue::Append {
            self.note_prefix_records(&ask.act, records)?;
        }
        Ok(())
    }

    /// Notes which records each number of batches gives after `act`, one on the append files. If it puts a
    /// batch, that batch gives `records`. After a sync or a new file no batch can be lost, so only the last
    /// records stay.
    ///
    /// # Errors
    ///
    /// `Memory` alone.
    fn note_prefix_records(&mut self, act: &Act, records: &str) -> Result<()> {
        let alloc = self.append.alloc();
        match act {
            Act::Put(_) => self.prefix_records.push(String::from_str(alloc, records)?)?,
            Act::Begin(_) | Act::Sync => {
                if let Some(last) = self.prefix_records.pop() {
                    self.prefix_records = vec![in alloc; last]?;
                }
            }
            Act::Delete | Act::Cut(_) => {}
        }
        Ok(())
    }

    /// Returns the crash that loses nothing of either queue.
    pub(crate) fn lossless_crash(&self) -> Crash {
        Crash {
            append: self.append.lossless_rest(),
            rewrite: self.rewrite.lossless_rest(),
        }
    }

    /// Draws a crash. What it leaves of one queue says nothing of the other.
    pub(crate) fn draw_crash(&self, dice: &mut Dice) -> Crash {
        Crash {
            append: self.append.draw_rest(dice),
            rewrite: self.rewrite.draw_rest(dice),
        }
    }

    /// Returns the crashes that leave what [`QueueDisk::possible_rests`] lists of `queue`, such as each
    /// number of bytes of its last batch. Each comes twice: once the other queue loses all bytes that it may
    /// lose, once it loses nothing.
    ///
    /// # Errors
    ///
    /// `Memory` alone.
    pub(crate) fn crashes_of_queue(&self, queue: LogQueue) -> Result<Vec<Crash>> {
        let mut crashes = Vec::new(self.append.alloc());
        for left in self.queue_disk(queue).possible_rests()? {
            let other = self.queue_disk(queue.other());
            for end in [other.rest_with_prefix(other.synced), other.lossless_rest()] {
                crashes.push(match queue {
                    LogQueue::Append => Crash {
                        append: left,
                        rewrite: end,
                    },
                    LogQueue::Rewrite => Crash {
                        append: end,
                        rewrite: left,
                    },
                })?;
            }
        }
        Ok(crashes)
    }

    /// Returns the text of the records that the synced batches of the append queue give.
    pub(crate) fn synced_records(&self) -> &str {
        match self.prefix_records.first() {
            Some(records) => records.as_str(),
            None => "",
        }
    }

    /// Returns copies of the files of the append queue and of those of the rewrite queue, with all bytes that
    /// were put.
    ///
    /// # Errors
    ///
    /// `Memory` alone.
    pub(crate) fn copy_files(&self) -> Result<(LogFiles, LogFiles)> {
        let append = self.append.copy_files_left(self.append.lossless_rest())?;
        Ok((
            append,
            self.rewrite.copy_files_left(self.rewrite.lossless_rest())?,
        ))
    }

    /// Returns copies of the files of the append queue and of those of the rewrite queue. The last one of
    /// each is cut after the synced batches that are whole.
    ///
    /// # Errors
    ///
    /// `Memory` alone.
    pub(crate) fn copy_untorn_files(&self) -> Result<(LogFiles, LogFiles)> {
        Ok((
            self.append.copy_untorn_files()?,
            self.rewrite.copy_untorn_files()?,
        ))
    }

    /// Returns copies of the files of both queues in which the first of two or more unsynced batches of the
    /// append queue has zeros after its header. A disk that writes in order leaves no such damage. Returns
    /// `None` if there are fewer than two such batches.
    ///
    /// # Errors
    ///
    /// `Memory` alone.
    pub(crate) fn copy_files_with_lost_page(&self) -> Result<Option<(LogFiles, LogFiles)>> {
        let [end, _, ..] = self.append.ends.as_slice() else {
            return Ok(None);
        };
        let (mut append, rewrite) = self.copy_files()?;
        let begin = self.append.synced.saturating_add(HEADER_LEN);
        if let Some(last) = append.last_mut() {
            let len = end.saturating_sub(begin);
            for byte in last.1.iter_mut().skip(begin).take(len) {
                *byte = 0;
            }
        }
        Ok(Some((append, rewrite)))
    }
}
