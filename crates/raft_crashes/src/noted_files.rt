//! Files in memory that note what an engine asks of them: each call other than a read is an *ask*.

ghost use Rattle.std.specs.Prelude.{◌≡◌};

use raft_base::{FileBlockHandle, FileSeq, LogQueue, Result};
use raft_files::{AppendError, EngineFiles, MemoryFiles};
use std::alloc::Global;

/// The numbers and bytes of the files of a queue, oldest first.
pub(crate) type LogFiles = Vec<(FileSeq, Vec<u8>)>;

/// What is asked of the files of a queue, other than a read.
#[derive(Drop)]
pub(crate) enum Act {
    /// These bytes are put at the end of the last file.
    Put(Vec<u8>),
    /// A file with this number is begun, as the last one.
    Begin(FileSeq),
    /// All that was asked so far is synced.
    Sync,
    /// The oldest file is deleted.
    Delete,
    /// The last file is cut to this many bytes.
    Cut(u64),
}

/// A call of an engine on its files.
#[derive(Drop)]
pub(crate) struct Ask {
    /// The queue of the files.
    pub(crate) queue: LogQueue,
    /// What is asked of them.
    pub(crate) act: Act,
}

/// Files in memory, and what was asked of them.
#[derive(Drop)]
pub(crate) struct NotedFiles {
    /// The files.
    pub(crate) files: MemoryFiles,
    /// What was asked, oldest first.
    pub(crate) asks: Vec<Ask>,
}

impl NotedFiles {
    /// Notes an act on the files of `queue`, before it is carried out.
    ///
    /// # Errors
    ///
    /// `Memory` alone. The act isn't noted then.
    fn note_act(&mut self, queue: LogQueue, act: Act) -> Result<()>
        ensures { self.new.files ≡ self.old.files }
    {
        Ok(self.asks.push(Ask { queue, act })?)
    }

    /// Notes that `bytes` are put at the end of the last file of `queue`, before it is carried out.
    ///
    /// # Errors
    ///
    /// `Memory` alone. Nothing is noted then.
    fn note_put(&mut self, queue: LogQueue, bytes: &[u8]) -> Result<()>
        ensures { self.new.files ≡ self.old.files }
    {
        let alloc: Global = *self.asks.allocator();
        self.note_act(queue, Act::Put(Vec::from_slice(alloc, bytes)?))
    }
}

impl EngineFiles for NotedFiles {
    ghost asked = { λ f. f.files };

    /// Notes that `bytes` are put, and puts them at the end of the last file of `queue`.
    ///
    /// # Errors
    ///
    /// `Memory`; those of the files in memory, which are unchanged then. The ask isn't noted.
    fn append(&mut self, queue: LogQueue, bytes: &[u8]) -> std::result::Result<(), AppendError> {
        if let Err(error) = self.note_put(queue, bytes) {
            return Err(AppendError::AsBefore(error));
        }
        let put = self.files.append(queue, bytes);
        if put.is_err() {
            let _undone = self.asks.pop();
        }
        put
    }

    /// Notes that a file is begun, and begins it as the last one of `queue`, numbered `seq`. The bytes of the
    /// older files count as synced then.
    ///
    /// # Errors
    ///
    /// `Memory`; those of the files in memory, which are unchanged then. The ask may be noted.
    fn rotate(&mut self, queue: LogQueue, seq: FileSeq) -> Result<()> {
        self.note_act(queue, Act::Begin(seq))?;
        self.files.rotate(queue, seq)
    }

    /// Notes a sync of `queue`, and makes it: everything that was asked of the queue so far survives a crash
    /// then.
    ///
    /// # Errors
    ///
    /// `Memory`; those of the files in memory. The ask may be noted then.
    fn sync(&mut self, queue: LogQueue) -> Result<()> {
        self.note_act(queue, Act::Sync)?;
        self.files.sync(queue)
    }

    /// Notes that the oldest file of `queue` is deleted, and deletes it.
    ///
    /// # Errors
    ///
    /// `Memory`; those of the files in memory, which are unchanged then. The ask may be noted.
    fn delete_oldest(&mut self, queue: LogQueue) -> Result<()> {
        self.note_act(queue, Act::Delete)?;
        self.files.delete_oldest(queue)
    }

    /// Notes that the last file of `queue` is cut, and cuts it to `len` bytes, if it has more.
    ///
    /// # Errors
    ///
    /// `Memory`; those of the files in memory, which are unchanged then. The ask may be noted.
    fn truncate(&mut self, queue: LogQueue, len: u64) -> Result<()> {
        self.note_act(queue, Act::Cut(len))?;
        self.files.truncate(queue, len)
    }

    /// Returns the bytes at `place`. A read isn't noted.
    ///
    /// # Errors
    ///
    /// Those of the files in memory. Nothing changes then.
    fn read(&mut self, place: FileBlockHandle) -> Result<Vec<u8>> {
        self.files.read(place)
    }
}
