//! A store of the logs of many regions in a folder.

ghost use Rattle.std.specs.Prelude.{◌≡◌};
ghost use Rattle.raft_records.specs.LogBatch.{IsSealedStage, is_open};

mod rewriting;

use crate::folder_pipe::{Disk, FileChange, FolderPipe};
use crate::logs::{Logs, push_tombstones};
use raft_base::{
    CompressionType, EntryIndex, Error, FileBlockHandle, FileId, FileSeq, LogQueue, PipeLog, Result,
};
use raft_memtable::{MemTable, MemTableAccessor};
use raft_records::{LogBatch, LogItem, entry_bytes};
use raft_recover::recover_both;
use raft_samples::{Contents, Proposal, Records, table_entries};
use std::alloc::Global;
use std::collections::BTreeMap;
use std::thread::Threads;

/// The last offset in a file at which a batch may begin.
const LAST_OFFSET: u64 = u64::MAX - 16;

/// What a store needs of the machine: files, memory, and threads that recover.
pub(crate) trait Host: Disk + Threads + Sync {}

impl<R: Disk + Threads + Sync> Host for R {}

/// The logs of many regions: files of both queues, and the tables that say where their records are.
///
/// After an `Err` of a call that writes or deletes, the files may hold something else than the tables say: open the
/// store again. A batch that the tables wouldn't take is refused before anything is written, and the store can be used after it.
#[derive(Drop)]
pub(crate) struct Store<'a, R: Host> {
    rt: &'a R,
    /// The files. Only the store's calls change them.
    pub(crate) pipe: FolderPipe<'a, R>,
    /// The tables of what the files hold. Only the store's calls change them, except that a test puts other
    /// tables of the same files in their place.
    pub(crate) tables: MemTableAccessor,
    /// What the append queue has taken away and the rewrite queue wasn't told yet: commands and deletions,
    /// and the truncation at the first index of each run that replaced entries.
    tombstones: Vec<LogItem>,
    /// The greatest number of an atomic group so far.
    last_group: u64,
    /// How many bytes a file must have before a new one is begun.
    file_size: u64,
    /// What was done to the files, oldest first. It is noted only if there is such a list.
    pub(crate) changes: Option<Vec<FileChange>>,
}

impl<'a, R: Host> Store<'a, R> {
    /// Opens the store in `folder`, which is made if it isn't there, and recovers its tables with at most
    /// `workers` threads. A file gets at least `file_size` bytes before the next one is begun.
    ///
    /// # Errors
    ///
    /// Those of [`FolderPipe::open`]; those of [`Logs::read`]; those of the recovery; `Memory`.
    pub(crate) fn open(
        rt: &'a R,
        folder: &'a str,
        file_size: u64,
        workers: usize,
    ) -> Result<Store<'a, R>> {
        let pipe = FolderPipe::open(rt, folder)?;
        let logs = Logs::read(rt.alloc(), &pipe)?;
        let (rewrite, append) = (logs.rewrite.as_slice(), logs.append.as_slice());
        let tables = recover_both(rt, rt.alloc(), rewrite, append, workers)?;
        Ok(Store {
            rt,
            pipe,
            tables,
            tombstones: logs.collect_tombstones(rt.alloc())?,
            last_group: logs.last_group_number(rt.alloc())?,
            file_size,
            changes: None,
        })
    }

    /// Writes `batch` to the append queue, and then to the tables. With `sync` it survives a crash once the
    /// call returns `Ok`. An empty batch does nothing.
    ///
    /// # Errors
    ///
    /// Those of the tables' check, and nothing has been written then; those of the files, after which the
    /// store must be opened again.
    pub(crate) fn write(&mut self, mut batch: LogBatch, sync: bool) -> Result<()>
        requires { batch.stage ≡ is_open }
    {
        if batch.is_empty() {
            return Ok(());
        }
        self.tables.check_append_writes(batch.items())?;
        self.append_batch(LogQueue::Append, &mut batch)?;
        if sync {
            self.sync(LogQueue::Append)?;
        }
        push_tombstones(&mut self.tombstones, batch.items(), Some(&self.tables))?;
        self.tables.apply_append_writes(batch.drain())
    }

    /// Syncs the last file of `queue`, and notes that.
    ///
    /// # Errors
    ///
    /// `Io` for the file; `Memory`.
    fn sync(&mut self, queue: LogQueue) -> Result<()> {
        self.pipe.sync(queue)?;
        self.note_change(FileChange::Synced(queue))
    }

    /// Begins a new file of `queue`. What the queue has had by then survives a crash.
    ///
    /// # Errors
    ///
    /// `Io` for a file; `Full` if no number can follow; `Memory`.
    pub(crate) fn rotate(&mut self, queue: LogQueue) -> Result<()> {
        self.pipe.rotate(queue)?;
        self.pipe = self.pipe.reopen()?;
        let (_, last) = self.pipe.file_span(queue);
        self.note_change(FileChange::Begun(FileId::new(queue, last)))
    }

    /// Notes `change`, which was made to the files. Does nothing if changes aren't noted.
    ///
    /// # Errors
    ///
    /// `Memory` alone.
    fn note_change(&mut self, change: FileChange) -> Result<()> {
        if let Some(changes) = &mut self.changes {
            changes.push(change)?;
        }
        Ok(())
    }

    /// Notes that `batch`, which is sealed, was written to the file `id`, with its bytes. Does nothing if
    /// changes aren't noted.
    ///
    /// # Errors
    ///
    /// `Memory` alone.
    fn note_written(&mut self, id: FileId, batch: &LogBatch) -> Result<()>
        requires { IsSealedStage batch.now.stage }
    {
        if self.changes.is_some() {
            let bytes = Vec::from_slice(self.rt.alloc(), batch.encoded_bytes())?;
            self.note_change(FileChange::Written(id, bytes))?;
        }
        Ok(())
    }

    /// Writes `batch` to the last file of `queue`, gives its items their places, and returns the number of
    /// the file. If that file is long enough, a new one is begun first.
    ///
    /// # Errors
    ///
    /// `Io` for a file; `Full` for a batch that is too long; `Failed` if its place would be after the last
    /// offset; `Memory`. The batch may be in the file then, and isn't in the tables.
    fn append_batch(&mut self, queue: LogQueue, batch: &mut LogBatch) -> Result<FileSeq>
        requires { batch.old.stage ≡ is_open }
    {
        let (_, last) = self.pipe.file_span(queue);
        if self.pipe.file_len(FileId::new(queue, last))? >= self.file_size {
            self.rotate(queue)?;
        }
        batch.finish_populate()?;
        let place = self.pipe.append(queue, batch)?;
        if !batch.is_sealed() || place.offset > LAST_OFFSET {
            return Err(Error::Failed);
        }
        self.note_written(place.id, batch)?;
        batch.finish_write(place);
        Ok(place.id.seq)
    }

    /// Returns the records of all regions. The bytes of entries are read from the files, at the places that
    /// the tables have.
    ///
    /// # Errors
    ///
    /// Those of reading the entry blocks; `Memory`.
    pub(crate) fn read_contents(&self) -> Result<Contents> {
        let mut contents = BTreeMap::new(self.rt.alloc());
        for table in self.tables.tables()? {
            let _ = contents.insert(table.region_id(), self.read_table_records(table)?)?;
        }
        Ok(contents)
    }

    /// Returns the records of `table`. The bytes of its entries are read from the files.
    ///
    /// # Errors
    ///
    /// Those of reading the entry blocks; `Memory`.
    fn read_table_records(&self, table: &MemTable) -> Result<Records> {
        let alloc = self.rt.alloc();
        let mut records = Records::new(alloc);
        records.put_entries(self.read_entries(&table_entries(alloc, table)?)?)?;
        records.put_pairs_of_table(alloc, table)?;
        Ok(records)
    }

    /// Returns `entries` with their bytes, read from the files. Neighboring entries in one entry block are
    /// read together.
    ///
    /// # Errors
    ///
    /// `EntryNotFound` for an entry without a place; those of reading the entry blocks; `Memory`.
    fn read_entries(&self, entries: &[EntryIndex]) -> Result<Vec<Proposal>> {
        let alloc = self.rt.alloc();
        let mut proposals = Vec::new(alloc);
        for neighbors in entries.chunk_by(are_in_one_block) {
            if let Some(first) = neighbors.first() {
                let place = first.entries.ok_or(Error::EntryNotFound)?;
                let block = self.read_block(place, first.compression_type)?;
                push_proposals(alloc, &mut proposals, neighbors, block.as_slice())?;
            }
        }
        Ok(proposals)
    }

    /// Returns the entry bytes of the entry block at `place`, without their checksum.
    ///
    /// # Errors
    ///
    /// `Io` for the file; `Corruption`, whose text begins with the path and the offset, if the block doesn't
    /// end in its checksum; `Memory`.
    fn read_block(&self, place: FileBlockHandle, compression: CompressionType) -> Result<Vec<u8>> {
        let alloc = self.rt.alloc();
        let block = self.pipe.read_bytes(alloc, place)?;
        match LogBatch::decode_entries_block(alloc, &block, place, compression) {
            Err(Error::Corruption(text)) => {
                let (path, offset) = (self.pipe.path_of(place.id)?, place.offset);
                Err(Error::Corruption(format!(in alloc; "{path}, offset {offset}: {text}")?))
            }
            entries => entries,
        }
    }
}

/// Tests whether the bytes of the entries `a` and `b` are in the same entry block.
fn are_in_one_block(a: &EntryIndex, b: &EntryIndex) -> bool {
    a.entries == b.entries
}

/// Appends `entries` to `proposals`, each with its bytes out of `bytes`, the entry bytes of their block.
///
/// # Errors
///
/// `Corruption` if an entry would end after these bytes; `Memory`. Some of them may have been appended then.
fn push_proposals(
    alloc: Global,
    proposals: &mut Vec<Proposal>,
    entries: &[EntryIndex],
    bytes: &[u8],
) -> Result<()> {
    for entry in entries {
        let text = Vec::from_slice(alloc, entry_bytes(alloc, bytes, entry)?)?;
        proposals.push(Proposal {
            index: entry.index,
            text,
        })?;
    }
    Ok(())
}
