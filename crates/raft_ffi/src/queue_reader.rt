//! The value behind a handle of a reader, which reads the files of a queue in pieces.

ghost use Rattle.std.specs.Prelude.{◌≡◌, ◌≢◌, ◌⊎◌, ◌+◌, ◌^◌, ◌<◌, length, take, drop, IfErr, IfOk, OnOk};
ghost use Rattle.raft_ffi.specs.Words.{ArePassedBy, CannotFollow, HasNoFront, HasReadNothing, HaveBothRead, HoldsFrom, IsNoneFound, IsReadable, IsReplayedBy, part_of, signature_of};
ghost use Rattle.raft_ffi.specs.Words.{AreReadersUnsound, HasBothFound, ReadersStand, ReadersStandExactly};

use raft_base::{Error, LogFileContext, LogQueue, Result};
use raft_contexts::MemTableRecoverContext;
use raft_engine::both::Both;
use raft_engine::group_rows::GroupRows;
use raft_history::ReplayMachine;
use raft_prefix::readable::replay_readable;
use raft_replay::replay_bytes;
use std::alloc::Global;
use std::marker::Model;

/// What was read of neighboring batches of a queue: their tables, whether their atomic groups stand in rows, and where in the
/// queue's last file those batches begin whose entries are damaged, if it is an append file.
#[derive(Drop)]
pub struct QueueReader {
    /// The context of the batches, and whether their atomic groups stand in rows.
    both: Both<MemTableRecoverContext, GroupRows>,
    /// The offsets in the queue's last file of the batches with damaged entries, in order.
    damaged: Vec<u64>,
}

impl Model for QueueReader {
    ghost use Rattle.raft_ffi.specs.Readers.{ReaderSeen, reader_code};

    ghost Value = { ReaderSeen };

    ghost coded = { reader_code };

    ghost use Rattle.raft_ffi.specs.ReadersView.{reader_seen};

    ghost view = { reader_seen };
}

impl QueueReader {
    /// Makes a reader that has read nothing.
    ///
    /// # Errors
    ///
    /// `Memory` alone.
    pub(crate) fn new(alloc: Global) -> Result<QueueReader>
        ensures ok { IfOk result HasReadNothing }
        ensures memory { IfErr result (λ e. e ≡ Error.Memory) }
    {
        let both = Both {
            first: MemTableRecoverContext::new(alloc)?,
            second: GroupRows::new(),
        };
        let damaged = Vec::new(alloc);
        Ok(QueueReader { both, damaged })
    }

    /// Returns what was read: the context, and whether the atomic groups stand in rows.
    pub(crate) fn into_both(self) -> Both<MemTableRecoverContext, GroupRows>
        ensures { result ≡ self.read }
    {
        self.both
    }

    /// Returns the offsets in the queue's last file of the batches with damaged entries that were found, in order.
    pub(crate) fn damaged_offsets(&self) -> &[u64]
        ensures { result.now ≡ self.now.damaged }
    {
        self.damaged.as_slice()
    }

    /// Replays `bytes`, batches that stand in `file` from `offset` on. Their entries aren't checked.
    ///
    /// # Errors
    ///
    /// Those of [`replay_bytes`]. Some of the batches may have been taken in then.
    pub(crate) fn replay(
        &mut self,
        alloc: Global,
        file: &LogFileContext,
        offset: u64,
        bytes: &[u8],
    ) -> Result<()>
        requires ends { offset + length bytes.now < 2 ^ 64 }
        ensures ok { OnOk result (IsReplayedBy (part_of file.now offset bytes.now) self.old self.new) }
        ensures none { OnOk result (IsNoneFound self.old self.new) }
        ensures refused { IfErr result (λ e. e ≢ Error.Memory
            → CannotFollow (HoldsFrom (part_of file.now offset bytes.now) 0) (HaveBothRead self.old.read)) }
    {
        replay_bytes(&mut self.both, alloc, file, offset, bytes)
    }

    /// Replays the batches at the start of `bytes`, up to the first one that can't be read, and returns how many bytes they
    /// have. `bytes` stand in `file`, the last one of a queue, from `offset` on. The entries of each batch are checked: if
    /// those of a batch of an append file are damaged, its offset is noted.
    ///
    /// # Errors
    ///
    /// `Corruption`, which names the file and the offset, if the entries of a batch of a rewrite file are damaged; those of a
    /// batch that can't follow those before it; `Memory`. Some of the batches may have been taken in then.
    pub(crate) fn replay_last(
        &mut self,
        alloc: Global,
        file: &LogFileContext,
        offset: u64,
        bytes: &[u8],
    ) -> Result<usize>
        requires ends { offset + length bytes.now < 2 ^ 64 }
        ensures ok { IfOk result (λ len. IsReplayedBy (part_of file.now offset (take len bytes.now)) self.old self.new) }
        ensures passed { IfOk result (λ len. ArePassedBy file.now offset bytes.now len self.old self.new) }
        ensures stops { IfOk result (λ len. (len ≡ length bytes.now)
            ⊎ HasNoFront (λ xs. IsReadable xs (signature_of file.now)) (drop len bytes.now)) }
    {
        match replay_readable(
            &mut self.both,
            alloc,
            file,
            offset,
            bytes,
            &mut self.damaged,
        )? {
            (len, None) => Ok(len),
            (len, Some(_)) => Ok(len),
        }
    }

    /// Takes in what `newer` has read, the batches that follow in `queue`, with what was found damaged of them.
    ///
    /// # Errors
    ///
    /// Those of `MemTableRecoverContext::merge`. What both have read is lost then.
    pub(crate) fn merge(&mut self, newer: QueueReader, queue: LogQueue) -> Result<()>
        ensures stands { OnOk result (ReadersStand newer self.old self.new) }
        ensures exact { OnOk result (ReadersStandExactly newer self.old self.new) }
        ensures found { OnOk result (HasBothFound newer self.old self.new) }
        ensures refused { IfErr result (λ e. e ≢ Error.Memory → AreReadersUnsound queue self.old newer) }
    {
        let QueueReader { both, mut damaged } = newer;
        self.both.merge(both, queue)?;
        self.damaged.append(&mut damaged)?;
        Ok(())
    }
}
