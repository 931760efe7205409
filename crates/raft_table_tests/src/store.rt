//! The log store of a Raft node: the table of its region, and the counts.

ghost use Rattle.std.specs.Prelude.{IfOk};
ghost use Rattle.raft_base.specs.declared.pipe_log.LogQueue.{LogQueue};
ghost use Rattle.raft_memtable.specs.TableEntries.{IsRunIn};
ghost use Rattle.raft_memtable.specs.Table.{IsCounted};

use raft_memtable::{
    EntryIndex, Error, FileBlockHandle, FileId, FileSeq, GlobalStats, LogQueue, Mark, MemTable,
    Result, TableChange, is_run,
};
use raft_trials::again;
use std::alloc::Global;

/// The log of one region, and the counts of its records alone.
#[derive(Drop)]
pub struct LogStore {
    alloc: Global,
    pub table: MemTable,
    pub stats: GlobalStats,
    ghost counted: { IsCounted table stats },
}

/// A run of entries: its first index, the index past its last, and the number of its file.
pub type Run = (u64, u64, FileSeq);

/// A call that changes a store. There is a single key.
#[derive(Clone, Copy, Debug)]
pub enum Call {
    Append(Run),
    Replay(LogQueue, Run),
    /// Rewrites a run, with a gate.
    Rewrite(Run, Option<FileSeq>),
    Compact(u64),
    Truncate(u64),
    Put(LogQueue, FileSeq),
    Delete,
    RewriteKey(Option<FileSeq>, FileSeq),
    Group(FileSeq, FileSeq),
    /// Counts so many records of another region.
    Count(LogQueue, u64),
}

/// What a call returns.
#[derive(Clone, Copy, PartialEq)]
pub enum Answer {
    Done,
    Dropped(u64),
    Corruption,
    InvalidArgument,
    Full,
    NotFound,
    Compacted,
}

/// What a store has: the first index and the one past the last, 0 without entries; how many records are live in the
/// append queue, and their oldest file; how many were written to the rewrite queue and how many deleted from it, and
/// the oldest file of those that are live. The oldest file is 0 where there are no records.
pub type Shape = ((u64, u64), (u64, FileSeq), (u64, u64, FileSeq));

/// Returns the result of a call as an answer: a number of dropped entries only if that isn't 0. `Memory` and errors
/// that no answer stands for are passed on.
///
/// # Errors
///
/// `Memory`; an error for which there is no [`Answer`].
pub fn to_answer(given: Result<u64>) -> Result<Answer> {
    match given {
        Ok(0) => Ok(Answer::Done),
        Ok(count) => Ok(Answer::Dropped(count)),
        Err(Error::Corruption(_)) => Ok(Answer::Corruption),
        Err(Error::InvalidArgument(_)) => Ok(Answer::InvalidArgument),
        Err(Error::Full) => Ok(Answer::Full),
        Err(Error::EntryNotFound) => Ok(Answer::NotFound),
        Err(Error::EntryCompacted) => Ok(Answer::Compacted),
        Err(other) => Err(other),
    }
}

/// How many entries of consecutive indexes are in one block of a file.
const BLOCK: u64 = 50;

/// Returns the entry of a run at an index. Its span depends on where the run starts.
pub fn entry_of_run(queue: LogQueue, run: Run, index: u64) -> EntryIndex {
    let (first, _, seq) = run;
    EntryIndex {
        index,
        entries: Some(FileBlockHandle {
            id: FileId::new(queue, seq),
            offset: index / BLOCK,
            len: 64,
        }),
        entry_offset: (first % 1000) as u32,
        entry_len: 1,
        ..EntryIndex::default()
    }
}

impl LogStore {
    /// Returns a store whose table, that of region 7, has no records, and whose counts are 0.
    pub fn new(alloc: Global) -> LogStore {
        LogStore {
            alloc,
            table: MemTable::new(alloc, 7),
            stats: GlobalStats::default(),
        }
    }

    /// Returns a new store on which these calls were made.
    ///
    /// # Errors
    ///
    /// That of the first call that fails; no further one is made then.
    pub fn with_calls(alloc: Global, calls: &[Call]) -> Result<LogStore> {
        let mut store = LogStore::new(alloc);
        for call in calls {
            store.call_by_method(*call)?;
        }
        Ok(store)
    }

    /// Returns a copy of a text.
    ///
    /// # Errors
    ///
    /// `Memory` alone.
    fn copy_bytes(&self, text: &[u8]) -> Result<Vec<u8>> {
        Ok(Vec::from_slice(self.alloc, text)?)
    }

    /// Returns the entries of a run, with places in its file of `queue`.
    ///
    /// # Errors
    ///
    /// `Failed` if they are no run of `queue`; `Memory`.
    fn run_entries(&self, queue: LogQueue, run: Run) -> Result<Vec<EntryIndex>>
        ensures { IfOk result (λ entries. IsRunIn queue entries.items) }
    {
        let (first, end, _) = run;
        let mut entries = Vec::new(self.alloc);
        for index in first..end {
            entries.push(entry_of_run(queue, run, index))?;
        }
        if is_run(&entries, queue) {
            Ok(entries)
        } else {
            Err(Error::Failed)
        }
    }

    /// Returns a call as a change that is a value; `None` where there is no such change.
    ///
    /// # Errors
    ///
    /// Those of [`LogStore::run_entries`]; `Memory`.
    fn to_change(&self, call: Call) -> Result<Option<TableChange>> {
        Ok(match call {
            Call::Append(run) => Some(TableChange::Append(self.run_entries(
                LogQueue::Append,
                run,
            )?)),
            Call::Rewrite(run, gate) => Some(TableChange::Rewrite {
                entries: self.run_entries(LogQueue::Rewrite, run)?,
                gate,
            }),
            Call::Compact(index) => Some(TableChange::Compact { index }),
            Call::Truncate(index) => Some(TableChange::Truncate { index }),
            Call::Put(queue, seq) => Some(TableChange::Put {
                key: self.copy_bytes(b"k")?,
                value: self.copy_bytes(b"v")?,
                file_id: FileId::new(queue, seq),
            }),
            Call::Delete => Some(TableChange::Delete {
                key: self.copy_bytes(b"k")?,
            }),
            Call::RewriteKey(gate, seq) => Some(TableChange::RewriteKey {
                key: self.copy_bytes(b"k")?,
                gate,
                seq,
            }),
            Call::Replay(..) | Call::Group(..) | Call::Count(..) => None,
        })
    }

    /// Makes a call by the method of the table. Returns how many entries it dropped; 0 for a call that drops none.
    ///
    /// # Errors
    ///
    /// Those of the method; `Failed` for a group that ends before it begins, or entries that are no run; `Memory`.
    pub fn call_by_method(&mut self, call: Call) -> Result<u64> {
        match call {
            Call::Append(run) => {
                let entries = self.run_entries(LogQueue::Append, run)?;
                self.table.append(entries, &mut self.stats)?;
            }
            Call::Replay(queue, run) => {
                let entries = self.run_entries(queue, run)?;
                self.replay_run(queue, entries)?;
            }
            Call::Rewrite(run, gate) => {
                let entries = self.run_entries(LogQueue::Rewrite, run)?;
                self.table.rewrite(entries, gate, &mut self.stats)?;
            }
            Call::Compact(index) => return Ok(self.table.compact_to(index, &mut self.stats)),
            Call::Truncate(index) => return Ok(self.table.truncate_from(index, &mut self.stats)),
            Call::Put(queue, seq) => {
                let (key, value) = (self.copy_bytes(b"k")?, self.copy_bytes(b"v")?);
                let file = FileId::new(queue, seq);
                self.table.put(key, value, file, &mut self.stats)?;
            }
            Call::Delete => self.table.delete(b"k", &mut self.stats),
            Call::RewriteKey(gate, seq) => {
                let key = self.copy_bytes(b"k")?;
                self.table.rewrite_key(key, gate, seq, &mut self.stats)?;
            }
            Call::Group(first_seq, last_seq) if first_seq <= last_seq => {
                self.table.apply_rewrite_atomic_group(first_seq, last_seq);
            }
            Call::Group(..) => return Err(Error::Failed),
            Call::Count(queue, count) => self.stats.add(queue, count as usize)?,
        }
        Ok(0)
    }

    /// Replays a run, which is of `queue`.
    ///
    /// # Errors
    ///
    /// `Failed` if it is of the rewrite queue, and there are appended records; those of the replay.
    fn replay_run(&mut self, queue: LogQueue, run: Vec<EntryIndex>) -> Result<()>
        requires { IsRunIn queue run.items }
    {
        match queue {
            LogQueue::Append => self.table.replay_append(run, &mut self.stats),
            LogQueue::Rewrite if self.table.records(LogQueue::Append) > 0 => Err(Error::Failed),
            LogQueue::Rewrite => self.table.replay_rewrite(run, &mut self.stats),
        }
    }

    /// Tries to replay a run, and once more where it isn't put, which may be for lack of memory. Returns whether it was
    /// put.
    ///
    /// # Errors
    ///
    /// Those of [`LogStore::run_entries`].
    pub fn try_replay(&mut self, queue: LogQueue, run: Run) -> Result<bool> {
        let entries = self.run_entries(queue, run)?;
        let run = raft_memtable::Run::Entries(&entries);
        Ok(
            self.table.try_replay(queue, &run, &mut self.stats)
                || self.table.try_replay(queue, &run, &mut self.stats),
        )
    }

    /// Makes a call: if `by_value`, as a change that is a value, where there is one for it. Returns how many entries it
    /// dropped.
    ///
    /// # Errors
    ///
    /// Those of [`LogStore::to_change`], [`MemTable::change`] and [`LogStore::call_by_method`].
    fn call(&mut self, call: Call, by_value: bool) -> Result<u64> {
        if by_value && let Some(change) = self.to_change(call)? {
            return self.table.change(change, &mut self.stats);
        }
        self.call_by_method(call)
    }

    /// Makes a call, and once more where it found no memory, since nothing has changed then.
    ///
    /// # Errors
    ///
    /// `Memory` if there is none twice; an error for which there is no [`Answer`].
    pub fn call_and_retry(&mut self, call: Call, by_value: bool) -> Result<Answer> {
        to_answer(again!(self.call(call, by_value)))
    }

    /// Makes a change of the table. Returns how many entries it dropped.
    ///
    /// # Errors
    ///
    /// Those of [`MemTable::change`].
    pub fn make(&mut self, change: TableChange) -> Result<u64> {
        self.table.change(change, &mut self.stats)
    }

    /// Puts a key with its value, by a change of the table.
    ///
    /// # Errors
    ///
    /// Those of [`MemTable::change`]; `Memory`.
    pub fn put(&mut self, key: &[u8], value: &[u8], file_id: FileId) -> Result<()> {
        let put = TableChange::Put {
            key: self.copy_bytes(key)?,
            value: self.copy_bytes(value)?,
            file_id,
        };
        self.make(put)?;
        Ok(())
    }

    /// Merges a table into the store's: as the appended one, or else as the newer neighbor.
    ///
    /// # Errors
    ///
    /// `Failed` if the tables are of different regions; those of the merge.
    pub fn merge(&mut self, other: &mut MemTable, is_append: bool) -> Result<()> {
        if self.table.region_id() != other.region_id() {
            return Err(Error::Failed);
        }
        if is_append {
            self.table.merge_append_table(other, &mut self.stats)
        } else {
            self.table.merge_newer_neighbor(other, &mut self.stats)
        }
    }

    /// Merges a newer table of a queue into the store's, under the newer one's region mark.
    ///
    /// # Errors
    ///
    /// `Failed` if the tables are of different regions, or have records that the join forbids; those of the join.
    pub fn join_under(&mut self, queue: LogQueue, newer: &mut MemTable, mark: &Mark) -> Result<()> {
        let other = match queue {
            LogQueue::Append => LogQueue::Rewrite,
            LogQueue::Rewrite => LogQueue::Append,
        };
        if self.table.region_id() != newer.region_id()
            || newer.records(other) > 0
            || queue == LogQueue::Rewrite && self.table.records(LogQueue::Append) > 0
        {
            return Err(Error::Failed);
        }
        self.table.join_under(queue, newer, mark, &mut self.stats)?;
        Ok(())
    }

    /// Returns the indexes of the store, and its counts and its least file in each queue; 0 where there is none.
    pub fn indexes_and_counts(&self) -> Shape {
        let last = self.table.last_index();
        let appended = self.stats.live_entries(LogQueue::Append) as u64;
        let written = self.stats.rewrite_entries() as u64;
        let deleted = self.stats.deleted_rewrite_entries() as u64;
        (
            (
                self.table.first_index().unwrap_or(0),
                last.map_or(0, |last| last.saturating_add(1)),
            ),
            (
                appended,
                self.table.min_file_seq(LogQueue::Append).unwrap_or(0),
            ),
            (
                written,
                deleted,
                self.table.min_file_seq(LogQueue::Rewrite).unwrap_or(0),
            ),
        )
    }
}
