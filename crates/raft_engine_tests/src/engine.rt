//! A model of an engine, for the histories: it keeps tables and writes files of both queues, all in memory, by the calls of
//! the layer below.

ghost use Rattle.std.specs.Prelude.{◌≡◌};
ghost use Rattle.raft_records.specs.LogBatch.{is_open};

use crate::batches::{Part, REGION, batch_of_parts, batch_with_entry, bytes_signed_for};
use raft_base::{EntryIndex, FileBlockHandle, FileId, FileSeq, LogFileContext, LogQueue, Version};
use raft_memtable::{MemTable, MemTableAccessor, MemTableRecoverContext};
use raft_records::{
    Error, FilePart, LogBatch, Result, entries_block_in, entry_bytes, next_batch, readable_front,
};
use raft_recover::replay_segment;
use std::alloc::Global;

/// A step of a history.
#[derive(Clone, Copy)]
pub enum Step {
    /// Writes a batch to this append file and to the tables.
    Append(FileSeq, &'static [Part]),
    /// Writes a batch to this rewrite file and to the tables; the records in append files up to the gate move.
    Rewrite(FileSeq, Option<FileSeq>, &'static [Part]),
    /// Writes a batch to this rewrite file, and not to the tables.
    Tell(FileSeq, &'static [Part]),
    /// Writes the list of cleaned regions to this rewrite file.
    TellCleaned(FileSeq),
    /// Sets the first and the last file of the table's atomic group.
    ApplyGroup(FileSeq, FileSeq),
    /// Deletes the files of a queue, up to this number, that the tables don't need.
    Purge(LogQueue, FileSeq),
    /// Syncs all files of a queue.
    Sync(LogQueue),
    /// Syncs one file of a queue.
    SyncFile(LogQueue, FileSeq),
    /// Loses the bytes that weren't synced, as a power failure does.
    Fail,
    /// Replaces the tables by those that the files of both queues give.
    Restart,
    /// Reads the entry with this index from its file.
    Read(u64),
}

/// A log file of the model.
#[derive(Drop)]
struct LogFile {
    /// Its queue and its number.
    id: FileId,
    /// Its bytes.
    bytes: Vec<u8>,
    /// How many of its bytes were synced.
    synced: usize,
}

/// The model: files of both queues, and the tables that are kept of them.
#[derive(Drop)]
pub struct Engine {
    /// What everything is allocated with.
    alloc: Global,
    /// The files, in the order in which they were begun.
    files: Vec<LogFile>,
    /// The tables.
    tables: MemTableAccessor,
}

impl Engine {
    /// Returns an engine without files and records.
    ///
    /// # Errors
    ///
    /// `Memory` alone.
    pub fn new(alloc: Global) -> Result<Engine> {
        Ok(Engine {
            alloc,
            files: Vec::new(alloc),
            tables: MemTableAccessor::new(alloc)?,
        })
    }

    /// Takes one `step` of a history.
    ///
    /// # Errors
    ///
    /// Those of the tables' calls; `EntryNotFound` if an entry that is read has no file; `Memory`.
    pub fn take_step(&mut self, step: &Step) -> Result<()> {
        match *step {
            Step::Append(seq, parts) => self.append_parts(seq, parts),
            Step::Rewrite(seq, gate, parts) => self.rewrite_parts(seq, gate, parts),
            Step::Tell(seq, parts) => self.tell_removals(seq, parts),
            Step::TellCleaned(seq) => self.tell_cleaned(seq),
            Step::ApplyGroup(first, last) => {
                self.tables
                    .apply_rewrite_atomic_group(REGION, first.min(last), last)
            }
            Step::Purge(queue, last) => {
                self.purge_files(queue, last);
                Ok(())
            }
            Step::Sync(queue) => {
                self.sync_files(queue, None);
                Ok(())
            }
            Step::SyncFile(queue, seq) => {
                self.sync_files(queue, Some(seq));
                Ok(())
            }
            Step::Fail => {
                self.lose_unsynced();
                Ok(())
            }
            Step::Restart => self.restart(),
            Step::Read(index) => self.read_entry(index),
        }
    }

    /// Writes a batch of `parts` to append file `seq`, and then to the tables.
    ///
    /// # Errors
    ///
    /// Those of the tables: the file has the batch then, and they don't. `Memory`.
    fn append_parts(&mut self, seq: FileSeq, parts: &[Part]) -> Result<()> {
        let mut batch = self.write_batch(
            LogQueue::Append,
            seq,
            batch_of_parts(self.alloc, parts)?,
        )?;
        self.tables.apply_append_writes(batch.drain())
    }

    /// Writes a batch of `parts` to rewrite file `seq`, and then to the tables, as rewritten records with this
    /// `gate`.
    ///
    /// # Errors
    ///
    /// Those of the tables: the file has the batch then, and they don't. `Memory`.
    fn rewrite_parts(&mut self, seq: FileSeq, gate: Option<FileSeq>, parts: &[Part]) -> Result<()> {
        let mut batch = self.write_batch(
            LogQueue::Rewrite,
            seq,
            batch_of_parts(self.alloc, parts)?,
        )?;
        self.tables.apply_rewrite_writes(batch.drain(), gate, seq)
    }

    /// Writes a batch of `parts` to rewrite file `seq`, and not to the tables.
    ///
    /// # Errors
    ///
    /// `Memory` alone.
    fn tell_removals(&mut self, seq: FileSeq, parts: &[Part]) -> Result<()> {
        let _ = self.write_batch(LogQueue::Rewrite, seq, batch_of_parts(self.alloc, parts)?)?;
        Ok(())
    }

    /// Takes the cleaned regions of the tables, and writes them to rewrite file `seq`, as items that clean them.
    ///
    /// # Errors
    ///
    /// Those of the tables; `Memory`.
    fn tell_cleaned(&mut self, seq: FileSeq) -> Result<()> {
        let cleaned = self.tables.take_cleaned_region_logs()?;
        let mut batch = self.write_batch(LogQueue::Rewrite, seq, cleaned)?;
        self.tables.apply_rewrite_writes(batch.drain(), None, seq)
    }

    /// Takes the tables that the files give in place of those that the engine has.
    ///
    /// # Errors
    ///
    /// Those of reading the files.
    fn restart(&mut self) -> Result<()> {
        self.tables = self.recover_tables()?;
        Ok(())
    }

    /// Reads the entry `index`, and drops its bytes.
    ///
    /// # Errors
    ///
    /// Those of [`Engine::read_entry_bytes`].
    fn read_entry(&self, index: u64) -> Result<()> {
        let _ = self.read_entry_bytes(index)?;
        Ok(())
    }

    /// Syncs the file `seq` of `queue`, or for `None` all of its files.
    fn sync_files(&mut self, queue: LogQueue, seq: Option<FileSeq>) {
        for file in &mut self.files {
            if file.id.queue == queue && seq.is_none_or(|seq| file.id.seq == seq) {
                file.synced = file.bytes.len();
            }
        }
    }

    /// Drops the bytes of each file that aren't synced, as a power failure does.
    fn lose_unsynced(&mut self) {
        for file in &mut self.files {
            file.bytes.truncate(file.synced);
        }
    }

    /// Appends the bytes of a batch to a file, and returns the batch with the places of its items. Errors: those of
    /// [`LogBatch::finish_populate`]; `Memory`. Nothing is appended then.
    fn write_batch(
        &mut self,
        queue: LogQueue,
        seq: FileSeq,
        mut batch: LogBatch,
    ) -> Result<LogBatch>
        requires { batch.stage ≡ is_open }
    {
        let context = LogFileContext::new(FileId::new(queue, seq), Version::V2);
        let len = batch.finish_populate()?;
        batch.prepare_write(&context);
        let offset = self.append_bytes(context.id, batch.encoded_bytes())?;
        if offset < 1 << 32 {
            batch.finish_write(FileBlockHandle {
                id: context.id,
                offset,
                len,
            });
        }
        Ok(batch)
    }

    /// Appends bytes to a file, which is made if there is none. Returns the offset at which they stand. Errors: `Memory`. The
    /// file is as it was then.
    fn append_bytes(&mut self, id: FileId, bytes: &[u8]) -> Result<u64> {
        for file in &mut self.files {
            if file.id == id {
                let offset = file.bytes.len() as u64;
                file.bytes.extend_from_slice(bytes)?;
                return Ok(offset);
            }
        }
        let bytes = Vec::from_slice(self.alloc, bytes)?;
        self.files.push(LogFile {
            id,
            bytes,
            synced: 0,
        })?;
        Ok(0)
    }

    /// Deletes the files of `queue` whose number is at most `last`, and below the least one that the table needs.
    fn purge_files(&mut self, queue: LogQueue, last: FileSeq) {
        let table = self.tables.get(REGION);
        let least = table.and_then(|table: &MemTable| table.min_file_seq(queue));
        let end = least.unwrap_or(FileSeq::MAX);
        self.files.retain(|file: &LogFile| {
            file.id.queue != queue || file.id.seq > last || file.id.seq >= end
        });
    }

    /// Writes a batch to an append file and to the tables, if the tables accept it; else nothing is written. Errors: those of
    /// the tables, which are as they were then, and so are the files; `Memory`.
    pub fn write_tested(&mut self, seq: FileSeq, parts: &'static [Part]) -> Result<()> {
        let batch = batch_of_parts(self.alloc, parts)?;
        self.tables.check_append_writes(batch.items())?;
        self.take_step(&Step::Append(seq, parts))
    }

    /// Returns copies of the files of a queue. Errors: `Memory`.
    pub fn copy_files(&self, queue: LogQueue) -> Result<Vec<(FileSeq, Vec<u8>)>> {
        let mut copies = Vec::new(self.alloc);
        for file in &self.files {
            if file.id.queue == queue {
                copies.push((file.id.seq, file.bytes.clone()?))?;
            }
        }
        Ok(copies)
    }

    /// Returns the length of the last file in bytes; 0 without files.
    pub fn last_file_len(&self) -> usize {
        match self.files.last() {
            Some(file) => file.bytes.len(),
            None => 0,
        }
    }

    /// Sets the bytes of the last file from `first` on and below `end` to zero, as if a page of it had never been written.
    pub fn lose_page(&mut self, first: usize, end: usize) {
        if let Some(file) = self.files.last_mut() {
            for at in first..end {
                if let Some(byte) = file.bytes.get_mut(at) {
                    *byte = 0;
                }
            }
        }
    }

    /// Drops the bytes of the last file from position `end` on.
    pub fn drop_bytes_from(&mut self, end: usize) {
        if let Some(file) = self.files.last_mut() {
            file.bytes.truncate(end);
        }
    }

    /// Drops the last byte of the last file.
    pub fn drop_last_byte(&mut self) {
        if let Some(file) = self.files.last_mut() {
            let _ = file.bytes.pop();
        }
    }

    /// Changes the lowest bit of the byte at position `at` of the last file.
    pub fn flip_bit(&mut self, at: usize) {
        if let Some(file) = self.files.last_mut() {
            if let Some(byte) = file.bytes.get_mut(at) {
                *byte ^= 1;
            }
        }
    }

    /// Cuts the last file at the end of its readable prefix.
    ///
    /// # Errors
    ///
    /// The reason why no batch can be read there, if a readable batch follows the unreadable one. Nothing is cut then.
    pub fn cut_tail(&mut self) -> Result<()> {
        let Some(file) = self.files.last_mut() else {
            return Ok(());
        };
        let part = part_with_copy_of_file(file)?;
        let (end, stopped) = readable_front(&part);
        let Some(reason) = stopped else {
            return Ok(());
        };
        if matches!(reason, Error::Memory) || has_batch_after_unreadable_one(&part, end)? {
            return Err(reason);
        }
        file.bytes.truncate(end);
        Ok(())
    }

    /// Tests whether a readable batch stands anywhere after the position where reading of the last file stops. Errors:
    /// `Memory`; that of a file that is too long for a part.
    pub fn has_batch_later(&self) -> Result<bool> {
        let Some(file) = self.files.last() else {
            return Ok(false);
        };
        let part = part_with_copy_of_file(file)?;
        let (end, _) = readable_front(&part);
        for at in end..part.bytes().len() {
            if at > end && is_batch_readable(next_batch(&part, at))? {
                return Ok(true);
            }
        }
        Ok(false)
    }

    /// Writes to append file 1 an entry whose bytes are a batch that could stand in that file. Errors: those of the tables:
    /// the file has the batch then, and they don't. `Memory`.
    pub fn append_batch_in_entry(&mut self, index: u64) -> Result<()> {
        let batch = batch_with_entry(
            self.alloc,
            REGION,
            index,
            bytes_of_batch_for_file_1(self.alloc)?,
        )?;
        let mut written = self.write_batch(LogQueue::Append, 1, batch)?;
        self.tables.apply_append_writes(written.drain())
    }

    /// Reads the bytes of an entry of the table from its file. Errors: `EntryNotFound` if the table or the files don't have the
    /// entry; `Corruption` if its block is damaged; `Memory`.
    pub fn read_entry_bytes(&self, index: u64) -> Result<Vec<u8>> {
        let entry = self.entry_index(index)?;
        let place = entry.entries.ok_or(Error::EntryNotFound)?;
        for file in &self.files {
            if file.id == place.id {
                return entry_bytes_in_file(self.alloc, file, place, &entry);
            }
        }
        Err(Error::EntryNotFound)
    }

    /// Returns what the table has of an entry: its place, and its span there. Errors: `EntryNotFound` if the table doesn't have
    /// the entry; those of [`MemTable::fetch_entries_to`].
    fn entry_index(&self, index: u64) -> Result<EntryIndex> {
        let table = self.tables.get(REGION).ok_or(Error::EntryNotFound)?;
        let mut entries: Vec<EntryIndex> = Vec::new(self.alloc);
        table.fetch_entries_to(index, index.saturating_add(1), None, &mut entries)?;
        match entries.first() {
            Some(entry) => Ok(*entry),
            None => Err(Error::EntryNotFound),
        }
    }

    /// Returns what the tables hold, as a text. Errors: `Memory`.
    pub fn kept_text(&self) -> Result<String> {
        table_text(self.alloc, self.tables.get(REGION))
    }

    /// Returns what the files of both queues give, as a text. Errors: those of reading the files; `Memory`.
    pub fn recovered_text(&self) -> Result<String> {
        table_text(self.alloc, self.recover_tables()?.get(REGION))
    }

    /// Returns the tables that the files of both queues give. Errors: those of reading the files, and of merging what they
    /// give; `Memory`.
    fn recover_tables(&self) -> Result<MemTableAccessor> {
        let mut context = self.recover_context(LogQueue::Rewrite)?;
        context.merge_append_context(self.recover_context(LogQueue::Append)?)?;
        context.finish()
    }

    /// Returns a context that has read the files of `queue`.
    ///
    /// # Errors
    ///
    /// Those of reading them.
    fn recover_context(&self, queue: LogQueue) -> Result<MemTableRecoverContext> {
        let segment = self.copy_segment(queue)?;
        let mut context = MemTableRecoverContext::new(self.alloc)?;
        replay_segment(&mut context, &segment)?;
        Ok(context)
    }

    /// Returns copies of the files of `queue`, as one segment.
    ///
    /// # Errors
    ///
    /// `Memory` alone.
    fn copy_segment(&self, queue: LogQueue) -> Result<Vec<FilePart>> {
        let mut segment = Vec::new(self.alloc);
        for file in &self.files {
            if file.id.queue == queue {
                segment.push(part_with_copy_of_file(file)?)?;
            }
        }
        Ok(segment)
    }
}

/// Returns the bytes of a batch that could stand in append file 1. Errors: those of making the batch; `Memory`.
fn bytes_of_batch_for_file_1(alloc: Global) -> Result<Vec<u8>> {
    let batch = batch_of_parts(alloc, &[Part::Put("v")])?;
    bytes_signed_for(alloc, batch, FileId::new(LogQueue::Append, 1))
}

/// Returns the bytes of an entry, whose block is at `place` of a file. Errors: `Corruption` if the block is damaged, or has no
/// such entry; `Memory`.
fn entry_bytes_in_file(
    alloc: Global,
    file: &LogFile,
    place: FileBlockHandle,
    entry: &EntryIndex,
) -> Result<Vec<u8>> {
    let part = part_with_copy_of_file(file)?;
    let block = entries_block_in(&part, place)?;
    Ok(Vec::from_slice(alloc, entry_bytes(alloc, block, entry)?)?)
}

/// Tests whether a readable batch stands where the unreadable one at position `at` ends by its header. This is written without
/// the engine under test, so that the test doesn't ask that whether it is right. Errors: `Memory` alone: any other error says
/// that no batch can be read there.
fn has_batch_after_unreadable_one(part: &FilePart, at: usize) -> Result<bool> {
    let mut bytes = part.bytes().get(at..).unwrap_or(b"");
    let Ok((_, _, len)) = LogBatch::decode_header(part.allocator(), &mut bytes) else {
        return Ok(false);
    };
    let end = at.saturating_add(len);
    if end >= part.bytes().len() {
        return Ok(false);
    }
    is_batch_readable(next_batch(part, end))
}

/// Tests whether a batch could be read. Errors: `Memory` alone: any other error says that no batch can be read.
fn is_batch_readable<T: Drop>(read: Result<T>) -> Result<bool> {
    match read {
        Ok(_) => Ok(true),
        Err(Error::Memory) => Err(Error::Memory),
        Err(_) => Ok(false),
    }
}

/// Returns a copy of a file as a part. Errors: `Memory`; that of a file that is too long for a part.
fn part_with_copy_of_file(file: &LogFile) -> Result<FilePart> {
    FilePart::new(file.id, Version::V2, 0, file.bytes.clone()?)
}

/// Returns the entries of a table as `[first,end)`, where `end` is the index after the last one, and the value of the key `k`
/// as `k=value`; an empty text for `None`. Errors: `Memory`.
pub fn table_text(alloc: Global, table: Option<&MemTable>) -> Result<String> {
    let mut text = String::new(alloc);
    let Some(table) = table else {
        return Ok(text);
    };
    if let (Some(first), Some(last)) = (table.first_index(), table.last_index()) {
        write!(text, "[{first},{})", last.saturating_add(1))?;
    }
    if let Some(value) = table.get(b"k") {
        write!(text, "k={}", String::from_utf8_lossy(alloc, value)?)?;
    }
    Ok(text)
}
