//! What an engine knows of the files of a queue.

ghost use Rattle.std.specs.Prelude.{◌≡◌, ◌⊎◌, ◌<◌, ◌+◌, ◌-◌, ◌^◌, [], ◌∷◌, ◌++◌, length, map, IfErr, IfOk, OnErr, OnOk};
ghost use Rattle.raft_files.specs.Asks.{Begin, Sync, ask};
ghost use Rattle.raft_files.specs.HeldFiles.{file_shown};
ghost use Rattle.raft_engine.specs.FileFailures.{FailsAmong};
ghost use Rattle.raft_engine.specs.QueueFilesOf.{files_known};

use raft_base::{Error, FileSeq, LogQueue, Result};
use raft_files::EngineFiles;
use std::alloc::Global;

/// The files of a queue that weren't deleted.
#[derive(Drop)]
pub struct QueueFiles {
    /// The numbers of all but the last one, oldest first.
    pub closed: Vec<FileSeq>,
    /// The number of the last one, to which batches are written.
    pub seq: FileSeq,
    /// The length of the last one in bytes.
    pub len: u64,
}

/// Returns that one of `append` and `rewrite` which is about `queue`.
pub fn pick_queue_files<'a>(
    queue: LogQueue,
    append: &'a QueueFiles,
    rewrite: &'a QueueFiles,
) -> &'a QueueFiles
    ensures { result.now ≡ files_known queue append.now rewrite.now }
{
    match queue {
        LogQueue::Append => append,
        LogQueue::Rewrite => rewrite,
    }
}

impl QueueFiles {
    ghost use Rattle.raft_engine.specs.QueueFilesOf.{AreOf};

    /// Returns what is known of a queue that has one empty file, numbered `seq`.
    pub fn first(alloc: Global, seq: FileSeq) -> QueueFiles
        ensures closed { result.closed.items ≡ [] }
        ensures seq { result.seq ≡ seq }
        ensures len { result.len ≡ 0 }
    {
        QueueFiles {
            closed: Vec::new(alloc),
            seq,
            len: 0,
        }
    }

    /// Returns what is known of a queue that has `files`, oldest first; there must be one at least.
    ///
    /// # Errors
    ///
    /// `Memory` alone.
    pub fn of(files: &Vec<(FileSeq, Vec<u8>)>) -> Result<QueueFiles>
        requires { 0 < length files.now.items }
        ensures ok { IfOk result (AreOf (map file_shown files.now.items)) }
        ensures short { IfOk result (λ known. known.len < 2 ^ 63) }
        ensures memory { IfErr result (λ e. e ≡ Error.Memory) }
    {
        let alloc = *files.allocator();
        let mut closed = Vec::new(alloc);
        let Some((last, rest)) = files.split_last() else {
            unreachable!()
        };
        for (seq, _) in rest {
            closed.push(*seq)?;
        }
        Ok(QueueFiles {
            closed,
            seq: last.0,
            len: last.1.len() as u64,
        })
    }

    /// Lists the last file among the closed ones, before another is begun. The number and the length of the last file stay as
    /// they are.
    ///
    /// # Errors
    ///
    /// `Full` if it has the greatest number; `Memory`. The list is unchanged then.
    pub fn close_last(&mut self) -> Result<()>
        ensures ok { OnOk result (self.new.closed.items ≡ self.old.closed.items ++ self.old.seq ∷ []) }
        ensures below { OnOk result (self.old.seq < 2 ^ 64 - 1) }
        ensures err { OnErr result (self.new.closed.items ≡ self.old.closed.items) }
        ensures seq { self.new.seq ≡ self.old.seq }
        ensures len { self.new.len ≡ self.old.len }
        ensures fault { IfErr result (λ e. (e ≡ Error.Memory) ⊎ ((e ≡ Error.Full) × (self.old.seq ≡ 2 ^ 64 - 1))) }
    {
        if self.seq == FileSeq::MAX {
            return Err(Error::Full);
        }
        self.closed.push(self.seq)?;
        Ok(())
    }

    /// Syncs `queue`, and begins the file with the next number in it, which is the last one then.
    ///
    /// # Errors
    ///
    /// Those of `EngineFiles::sync` and `EngineFiles::rotate`. The list of closed files is unchanged.
    pub fn begin_next<F: EngineFiles>(&mut self, files: &mut F, queue: LogQueue) -> Result<()>
        requires { self.old.seq < 2 ^ 64 - 1 }
        ensures ok { OnOk result (F.asked files.new
            ≡ ask queue (Begin (self.old.seq + 1)) ∷ ask queue Sync ∷ F.asked files.old) }
        ensures closed { self.new.closed.items ≡ self.old.closed.items }
        ensures seq { OnOk result (self.new.seq ≡ self.old.seq + 1) }
        ensures len { OnOk result (self.new.len ≡ 0) }
        ensures fault { IfErr result (FailsAmong F.may_fail
            (ask queue (Begin (self.old.seq + 1)) ∷ ask queue Sync ∷ []) (F.asked files.old) (F.asked files.new)) }
    {
        files.sync(queue)?;
        let seq = self.seq + 1;
        files.rotate(queue, seq)?;
        self.seq = seq;
        self.len = 0;
        Ok(())
    }

    /// Returns the allocator of the list.
    pub fn allocator(&self) -> Global {
        *self.closed.allocator()
    }
}
