//! [`EngineFiles`]: the trait of the files that an engine writes and reads.

ghost use Rattle.std.specs.Prelude.{◌≡◌, [], List, IfErr, IfOk, OnOk, OnErr};
ghost use Rattle.raft_base.specs.declared.errors.Error.{Error};
ghost use Rattle.raft_files.specs.Appends.{IsNotAppended, append_fault};
ghost use Rattle.raft_files.specs.Asks.{Ask, Begin, Cut, Delete, IsAsked, MayBeAsked, Put, Read, Sync, Unsynced, ask};

use crate::AppendError;
use raft_base::{FileBlockHandle, FileSeq, LogQueue, Result};

/// The files of both queues, as an engine uses them.
///
/// Contracts see only what was asked of them by these calls: a list of asks, newest first. What a disk makes of the asks, and
/// what it may leave when the machine crashes, is said of that list (`specs/Disk.antt`). An implementation over real files
/// notes each ask in an [`Asked`](crate::Asked), also one that fails after it has begun, unless it was taken back (some of the
/// bytes are written; a file may be there or gone). It has to see to it that the disk does the following:
///
/// - Of bytes that weren't synced, a prefix is there after a crash: no hole, and no page of zeros before other bytes. So files
///   are neither made longer in advance nor used again. Synced bytes aren't harmed by bytes after them. On a disk that writes
///   unsynced pages in any order, less is promised.
/// - `sync` also makes the names of new files and deletions durable, as a sync of the folder does. `rotate` first syncs the
///   file that it closes. A crash may undo a cut that wasn't synced, but not if bytes were put after it: a sync of the file in
///   `truncate` is enough.
/// - Files are deleted in the order in which that was asked, so that no crash leaves an older file where a younger one is gone.
/// - After a call that failed half way, either the bytes are as before, or every later call but `read` fails. An append that
///   failed, since the disk is full for instance, says which ([`AppendError`](crate::AppendError)): where it cut the file to
///   the length that it had, and synced that, the bytes are as before, the ask isn't noted, and an engine goes on. A write that
///   fails has to do so for its own bytes alone; what becomes of earlier ones only a sync tells (a local file system; not NFS).
///   Where the cut or its sync fails, return that error: earlier bytes may be lost then too, as after a failed sync.
/// - A sync that fails after it has begun is noted as failed ([`Asked::unsynced`](crate::Asked::unsynced)). The system may take
///   bytes for synced then that it has dropped. So nothing is promised if anything but reads is asked after that; an engine
///   asks nothing else. The machine must be started again before such files are found.
/// - `read` returns the bytes that were put at the place, or bytes that aren't an entry block with a valid checksum, or an
///   `Err`.
/// - An implementation over a folder that has files already syncs each of them, and the folder, before it hands them out. It
///   notes them ([`Asked::found`](crate::Asked::found)) before anything else of their queue.
pub trait EngineFiles {
    /// What was asked so far, newest first.
    ghost asked: { Self → List Ask };

    /// A call that asks this, after all that was asked so far, may fail with this error. Any error may come, unless an
    /// implementation says otherwise.
    ghost may_fail: { List Ask → Ask → Error → Type 0 } = { λ _ _ _. Unit {0} };

    /// Puts `bytes` at the end of the last file of `queue`. They need not be on the disk before the next `sync`.
    ///
    /// # Errors
    ///
    /// Those of the implementation. `AsBefore` if the file is as it was, and nothing is noted: what was written of the bytes is
    /// cut off again, and that cut is synced, so that no crash brings them back. The files take further calls then. `InPart` if
    /// some of the bytes may be there.
    fn append(&mut self, queue: LogQueue, bytes: &[u8]) -> std::result::Result<(), AppendError>
        ensures ok { OnOk result (IsAsked (ask queue (Put bytes.now)) (asked self.old) (asked self.new)) }
        ensures err { IfErr result (λ e. IsNotAppended (ask queue (Put bytes.now)) e (asked self.old) (asked self.new)) }
        ensures fault { IfErr result (λ e. may_fail (asked self.old) (ask queue (Put bytes.now)) (append_fault e)) };

    /// Syncs the last file of `queue`, and begins a new one with the number `seq` after it.
    ///
    /// # Errors
    ///
    /// Those of the implementation. The new file may be there then, or not.
    fn rotate(&mut self, queue: LogQueue, seq: FileSeq) -> Result<()>
        ensures ok { OnOk result (IsAsked (ask queue (Begin seq)) (asked self.old) (asked self.new)) }
        ensures err { OnErr result (MayBeAsked (ask queue (Begin seq)) (asked self.old) (asked self.new)) }
        ensures fault { IfErr result (may_fail (asked self.old) (ask queue (Begin seq))) };

    /// Makes everything that was asked of `queue` so far survive a crash.
    ///
    /// # Errors
    ///
    /// Those of the implementation. Nothing is promised then; a sync that had begun is noted as failed.
    fn sync(&mut self, queue: LogQueue) -> Result<()>
        ensures ok { OnOk result (IsAsked (ask queue Sync) (asked self.old) (asked self.new)) }
        ensures err { OnErr result (MayBeAsked (ask queue Unsynced) (asked self.old) (asked self.new)) }
        ensures fault { IfErr result (may_fail (asked self.old) (ask queue Sync)) };

    /// Deletes the oldest file of `queue`.
    ///
    /// # Errors
    ///
    /// Those of the implementation. The file may be gone then, or not.
    fn delete_oldest(&mut self, queue: LogQueue) -> Result<()>
        ensures ok { OnOk result (IsAsked (ask queue Delete) (asked self.old) (asked self.new)) }
        ensures err { OnErr result (MayBeAsked (ask queue Delete) (asked self.old) (asked self.new)) }
        ensures fault { IfErr result (may_fail (asked self.old) (ask queue Delete)) };

    /// Cuts the last file of `queue` to its first `len` bytes, if it has more.
    ///
    /// # Errors
    ///
    /// Those of the implementation. The file may be cut then, or not.
    fn truncate(&mut self, queue: LogQueue, len: u64) -> Result<()>
        ensures ok { OnOk result (IsAsked (ask queue (Cut len)) (asked self.old) (asked self.new)) }
        ensures err { OnErr result (MayBeAsked (ask queue (Cut len)) (asked self.old) (asked self.new)) }
        ensures fault { IfErr result (may_fail (asked self.old) (ask queue (Cut len))) };

    /// Returns the bytes at `place`, and notes them. No clause says that they are those that were put there.
    ///
    /// # Errors
    ///
    /// Those of the implementation, as `may_fail` says them of a read without bytes. Nothing is noted then.
    fn read(&mut self, place: FileBlockHandle) -> Result<Vec<u8>>
        ensures ok { IfOk result (λ bytes. IsAsked (ask place.id.queue (Read place bytes.items))
            (asked self.old) (asked self.new)) }
        ensures err { OnErr result (asked self.new ≡ asked self.old) }
        ensures fault { IfErr result (may_fail (asked self.old) (ask place.id.queue (Read place []))) };
}
