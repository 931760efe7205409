//! Moves records to the rewrite queue, and deletes files that no table needs.

ghost use Rattle.std.specs.Prelude.{◌≡◌, IfOk, OnOk};
ghost use Rattle.raft_records.specs.LogBatch.{is_open};

use super::{Host, Store};
use crate::folder_pipe::FileChange;
use raft_base::{EntryIndex, FileId, FileSeq, LogQueue, PipeLog, Result};
use raft_memtable::MemTable;
use raft_records::{AtomicGroupBuilder, LogBatch, LogItem, LogItemContent};
use raft_samples::Proposals;
use std::alloc::Global;

/// The most entries of a batch that moves some. An engine counts their bytes instead.
const BATCH_ENTRIES: usize = 3;

/// The records of a region that are to be moved.
#[derive(Drop)]
struct MovedRecords {
    /// The entries, with their present places.
    entries: Vec<EntryIndex>,
    /// The keys with their values.
    pairs: Vec<(Vec<u8>, Vec<u8>)>,
}

impl MovedRecords {
    /// Returns the records of `table` that are to be moved: with a `gate`, those in append files numbered at
    /// or below it; without one, those in rewrite files.
    ///
    /// # Errors
    ///
    /// `Memory` alone.
    fn of_table(alloc: Global, table: &MemTable, gate: Option<FileSeq>) -> Result<MovedRecords> {
        let mut records = MovedRecords {
            entries: Vec::new(alloc),
            pairs: Vec::new(alloc),
        };
        match gate {
            Some(gate) => {
                table.fetch_entry_indexes_before(gate, &mut records.entries)?;
                table.fetch_kvs_before(gate, &mut records.pairs)?;
            }
            None => {
                table.fetch_rewritten_entry_indexes(&mut records.entries)?;
                table.fetch_rewritten_kvs(&mut records.pairs)?;
            }
        }
        Ok(records)
    }
}

impl<R: Host> Store<'_, R> {
    /// Moves the records of all append files but the last one, to which batches are written, to the rewrite
    /// queue. Returns how many regions had such records.
    ///
    /// # Errors
    ///
    /// Those of writing a batch and of the tables. Some of the records may have been moved then.
    pub(crate) fn rewrite_append_queue(&mut self) -> Result<usize> {
        let (first, last) = self.pipe.file_span(LogQueue::Append);
        if first == last {
            return Ok(0);
        }
        self.move_records(Some(last - 1))
    }

    /// Begins a new rewrite file, and moves the records of all rewrite files to it, or to further ones once
    /// it is long enough. Returns how many regions had such records.
    ///
    /// # Errors
    ///
    /// Those of writing a batch and of the tables. Some of the records may have been moved then.
    pub(crate) fn rewrite_rewrite_queue(&mut self) -> Result<usize> {
        self.rotate(LogQueue::Rewrite)?;
        self.move_records(None)
    }

    /// Deletes the oldest files of both queues that no table needs. Returns how many it deleted in the append
    /// queue and in the rewrite queue. The rewrite queue is told first what the append queue took away, and
    /// synced, so that what was moved out of the files survives a crash.
    ///
    /// # Errors
    ///
    /// `Io` for a file; those of writing a batch; `Memory`. Some of the files may be gone then.
    pub(crate) fn purge(&mut self) -> Result<(usize, usize)> {
        self.rewrite_tombstones()?;
        self.sync(LogQueue::Rewrite)?;
        let appended = self.purge_queue(LogQueue::Append)?;
        let rewritten = self.purge_queue(LogQueue::Rewrite)?;
        Ok((appended, rewritten))
    }

    /// Deletes the files of `queue` below the least one that a table needs. Returns how many it deleted.
    ///
    /// # Errors
    ///
    /// `Io` for a file; `Memory`. Some of the files may be gone then.
    fn purge_queue(&mut self, queue: LogQueue) -> Result<usize> {
        let (_, last) = self.pipe.file_span(queue);
        let least = self.tables.fold(last, |least: FileSeq, table: &MemTable| {
            match table.min_file_seq(queue) {
                Some(seq) => least.min(seq),
                None => least,
            }
        });
        let least = FileId::new(queue, least);
        let deleted = self.pipe.purge_to(least)?;
        self.pipe = self.pipe.reopen()?;
        self.note_change(FileChange::DeletedBelow(least))?;
        Ok(deleted)
    }

    /// Writes to the rewrite queue what takes records away there: a clean of each cleaned region, then the
    /// commands and deletions that it wasn't told yet. The append queue is synced first, so that nothing is
    /// told of batches that a crash may lose.
    ///
    /// # Errors
    ///
    /// `Io` for a file; those of writing a batch; `Memory`. The store must be opened again then.
    pub(crate) fn rewrite_tombstones(&mut self) -> Result<()> {
        self.sync(LogQueue::Append)?;
        let cleaned = self.tables.take_cleaned_region_logs()?;
        self.write_moved_batch(cleaned, None)?;
        let mut batch = LogBatch::default(self.rt.alloc());
        add_tombstones(&mut batch, self.tombstones.as_slice())?;
        if !batch.is_empty() {
            self.append_batch(LogQueue::Rewrite, &mut batch)?;
        }
        self.tombstones.clear();
        Ok(())
    }

    /// Moves records of all regions to the rewrite queue: with a `gate`, those in append files numbered at or
    /// below it; without one, those that are rewritten already. Returns how many regions had such records.
    ///
    /// # Errors
    ///
    /// Those of writing a batch and of the tables. Some of the records may have been moved then.
    fn move_records(&mut self, gate: Option<FileSeq>) -> Result<usize> {
        self.rewrite_tombstones()?;
        let mut regions = Vec::new(self.rt.alloc());
        for table in self.tables.tables()? {
            regions.push(table.region_id())?;
        }
        regions.sort_unstable();
        let mut moved = 0usize;
        for region in regions {
            moved = moved.saturating_add(usize::from(self.move_region_records(region, gate)?));
        }
        Ok(moved)
    }

    /// Moves records of `region` to the rewrite queue: with a `gate`, those in append files numbered at or
    /// below it; without one, those that are rewritten already. Returns whether there were any.
    ///
    /// # Errors
    ///
    /// Those of writing a batch and of the tables. Some of the records may have been moved then.
    fn move_region_records(&mut self, region: u64, gate: Option<FileSeq>) -> Result<bool> {
        let Some(table) = self.tables.get(region) else {
            return Ok(false);
        };
        let records = MovedRecords::of_table(self.rt.alloc(), table, gate)?;
        if records.entries.is_empty() && records.pairs.is_empty() {
            return Ok(false);
        }
        match gate {
            Some(_) => self.write_batches(region, records, gate)?,
            None => self.write_group(region, records)?,
        }
        Ok(true)
    }

    /// Writes `records` of `region`, which are in append files up to `gate`, to the rewrite queue, in batches
    /// that each take effect by themselves. That is enough, as the append files stay until all are written.
    ///
    /// # Errors
    ///
    /// Those of writing a batch and of the tables. Some of the records may have been moved then.
    fn write_batches(
        &mut self,
        region: u64,
        records: MovedRecords,
        gate: Option<FileSeq>,
    ) -> Result<()> {
        for entries in records.entries.chunks(BATCH_ENTRIES) {
            let batch = self.batch_with_entries(region, entries)?;
            self.write_moved_batch(batch, gate)?;
        }
        let mut batch = LogBatch::default(self.rt.alloc());
        put_all_pairs(&mut batch, region, records.pairs)?;
        self.write_moved_batch(batch, gate)?;
        Ok(())
    }

    /// Writes all rewritten records of `region` to the rewrite queue again, as an atomic group of two
    /// batches: all of them move, or none. The table remembers the files of one group only, so no record may
    /// be left in an older one.
    ///
    /// # Errors
    ///
    /// Those of writing a batch and of the tables.
    fn write_group(&mut self, region: u64, records: MovedRecords) -> Result<()> {
        self.last_group = self.last_group.saturating_add(1);
        let mut group = AtomicGroupBuilder::with_id(self.last_group);
        let (front, rest) = records.entries.split_at(records.entries.len() / 2);
        let mut begin = self.batch_with_entries(region, front)?;
        group.begin(&mut begin)?;
        let first = self.write_moved_batch(begin, None)?;
        let mut end = self.batch_with_entries(region, rest)?;
        put_all_pairs(&mut end, region, records.pairs)?;
        group.end(&mut end)?;
        let last = self.write_moved_batch(end, None)?;
        self.tables
            .apply_rewrite_atomic_group(region, first.min(last), last)
    }

    /// Returns an open batch with `entries` of `region`. Their bytes are read from the files.
    ///
    /// # Errors
    ///
    /// Those of reading the entry blocks; those of [`LogBatch::add_entries`].
    fn batch_with_entries(&self, region: u64, entries: &[EntryIndex]) -> Result<LogBatch>
        ensures { IfOk result (λ batch. batch.stage ≡ is_open) }
    {
        let mut batch = LogBatch::default(self.rt.alloc());
        batch.add_entries::<Proposals>(region, self.read_entries(entries)?.as_slice())?;
        Ok(batch)
    }

    /// Writes `batch` to the rewrite queue, and then to the tables, as rewritten records with this `gate`.
    /// Returns the number of the file that it is in, or 0 for an empty batch, which isn't written.
    ///
    /// # Errors
    ///
    /// Those of writing a batch and of the tables.
    fn write_moved_batch(&mut self, mut batch: LogBatch, gate: Option<FileSeq>) -> Result<FileSeq>
        requires { batch.stage ≡ is_open }
    {
        if batch.is_empty() {
            return Ok(0);
        }
        let seq = self.append_batch(LogQueue::Rewrite, &mut batch)?;
        self.tables.apply_rewrite_writes(batch.drain(), gate, seq)?;
        Ok(seq)
    }
}

/// Adds a put of each of `pairs` in `region` to `batch`, which must be open.
///
/// # Errors
///
/// Those of [`LogBatch::put`]. Some of them may have been added then.
fn put_all_pairs(batch: &mut LogBatch, region: u64, pairs: Vec<(Vec<u8>, Vec<u8>)>) -> Result<()>
    requires { batch.old.stage ≡ is_open }
    ensures { OnOk result (batch.new.stage ≡ is_open) }
{
    for pair in pairs {
        let (key, value) = pair;
        batch.put(region, key, value)?;
    }
    Ok(())
}

/// Adds the commands and deletions among `items` to `batch`, which must be open. Entries are left out.
///
/// # Errors
///
/// `Memory` alone. Some of them may have been added then.
fn add_tombstones(batch: &mut LogBatch, items: &[LogItem]) -> Result<()>
    requires { batch.old.stage ≡ is_open }
    ensures { OnOk result (batch.new.stage ≡ is_open) }
{
    for item in items {
        match &item.content {
            LogItemContent::Command(command) => {
                batch.add_command(item.raft_group_id, command.clone()?)?
            }
            LogItemContent::Kv(pair) => batch.delete(item.raft_group_id, pair.key.clone()?)?,
            LogItemContent::EntryIndexes(_) => {}
        }
    }
    Ok(())
}
