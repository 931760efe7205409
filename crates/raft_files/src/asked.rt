//! [`Asked`]: the list of what was asked of files, which exists for contracts alone.
ghost use Rattle.std.specs.Prelude.{◌≡◌, List, [], ◌∷◌, map};
ghost use Rattle.std.specs.Borrow.{ftrue};
ghost use Rattle.std.specs.Coded.{coded_list};
ghost use Rattle.raft_files.specs.AskCode.{ask_code};
ghost use Rattle.raft_base.specs.declared.pipe_log.LogQueue.TheVariants.{Append, Rewrite};
ghost use Rattle.raft_files.specs.Asks.{Ask, NumberedBytes, Begin, Cut, Delete, Found, IsAsked, Put, Read, Sync, Unsynced, ask};
ghost use Rattle.raft_files.specs.HeldFiles.{file_shown};
ghost use Rattle.raft_files.specs.Notes.{ask_noted, found_noted, queue_noted};

use crate::Found;
use raft_base::{FileBlockHandle, FileSeq, LogQueue};
use std::marker::{Model, PhantomData};

/// The number by which a put of bytes is noted.
const PUT: u64 = 0;

/// The number by which the begin of a file is noted.
const BEGIN: u64 = 1;

/// The number by which a sync is noted.
const SYNC: u64 = 2;

/// The number by which a deletion is noted.
const DELETE: u64 = 3;

/// The number by which a cut is noted.
const CUT: u64 = 4;

/// The number by which a read is noted.
const READ: u64 = 5;

/// The number by which a failed sync is noted.
const UNSYNCED: u64 = 6;

/// The list of what was asked of files, newest first. Only contracts read it: when a program runs it takes no memory,
/// and its calls do nothing. An implementation of [`EngineFiles`](crate::EngineFiles) over files whose contents no
/// contract can tell keeps one, and notes each ask in it.
#[derive(Drop)]
pub struct Asked {
    /// Nothing: the list is in the ghost field alone.
    marker: PhantomData<u8>,
    pub ghost asks: { List Ask } by { coded_list ask_code },
}

impl Model for Asked {
    ghost also_owns = { λ _. ftrue };
}

impl Asked {
    /// Returns the list of nothing that was asked.
    pub fn new() -> Asked
        ensures { result.asks ≡ [] }
    {
        Asked {
            marker: PhantomData,
        }
    }

    /// Notes that `bytes` were put at the end of the last file of `queue`.
    pub fn put(&mut self, queue: LogQueue, bytes: &[u8])
        ensures { IsAsked (ask queue (Put bytes.now)) self.old.asks self.new.asks }
    {
        self.note(&[queue_number(queue), PUT, 0], bytes);
    }

    /// Notes that a file with the number `seq` was begun after the last one of `queue`.
    pub fn begin(&mut self, queue: LogQueue, seq: FileSeq)
        ensures { IsAsked (ask queue (Begin seq)) self.old.asks self.new.asks }
    {
        self.note(&[queue_number(queue), BEGIN, seq], &[]);
    }

    /// Notes that `queue` was synced.
    pub fn sync(&mut self, queue: LogQueue)
        ensures { IsAsked (ask queue Sync) self.old.asks self.new.asks }
    {
        self.note(&[queue_number(queue), SYNC, 0], &[]);
    }

    /// Notes that a sync of `queue` was begun and failed.
    pub fn unsynced(&mut self, queue: LogQueue)
        ensures { IsAsked (ask queue Unsynced) self.old.asks self.new.asks }
    {
        self.note(&[queue_number(queue), UNSYNCED, 0], &[]);
    }

    /// Notes that the oldest file of `queue` was deleted.
    pub fn delete(&mut self, queue: LogQueue)
        ensures { IsAsked (ask queue Delete) self.old.asks self.new.asks }
    {
        self.note(&[queue_number(queue), DELETE, 0], &[]);
    }

    /// Notes that the last file of `queue` was cut to `len` bytes.
    pub fn cut(&mut self, queue: LogQueue, len: u64)
        ensures { IsAsked (ask queue (Cut len)) self.old.asks self.new.asks }
    {
        self.note(&[queue_number(queue), CUT, len], &[]);
    }

    /// Notes that the bytes at `place` were read, and were `bytes`.
    pub fn read(&mut self, place: FileBlockHandle, bytes: &[u8])
        ensures { IsAsked (ask place.id.queue (Read place bytes.now)) self.old.asks self.new.asks }
    {
        self.note(
            &[
                queue_number(place.id.queue),
                READ,
                place.id.seq,
                place.offset,
                place.len as u64,
            ],
            bytes,
        );
    }

    /// Notes that `files`, each with its number and its bytes, are those of `queue` that were found when the machine
    /// started, oldest first. All of their bytes must be on the disk.
    pub fn found(&mut self, queue: LogQueue, files: &Vec<(FileSeq, Vec<u8>)>)
        ensures { IsAsked (ask queue (Found (map file_shown files.now.items))) self.old.asks self.new.asks }
    {
        self.note_found(&[queue_number(queue)], files);
    }

    /// Returns the list in which only the found files of both queues are noted, for files whose bytes nobody holds.
    /// `found` says what is known of their bytes; the noted ones agree with it.
    pub fn of_found<X: Found>(found: &X) -> Asked
        requires { (append : List NumberedBytes) × (rewrite : List NumberedBytes) × X.are_found found.now append rewrite }
        ensures { (append : List NumberedBytes) × (rewrite : List NumberedBytes) × X.are_found found.now append rewrite
            × (result.asks ≡ ask Rewrite (Found rewrite) ∷ ask Append (Found append) ∷ []) }
    {
        let _ = found;
        Asked {
            marker: PhantomData,
        }
    }

    /// Notes found files. `_numbers` has the number of their queue. It computes nothing: only its contract counts.
    fn note_found(&mut self, _numbers: &[u64], _files: &Vec<(FileSeq, Vec<u8>)>)
        ensures { self.new.asks ≡ found_noted _numbers.now (map file_shown _files.now.items) ∷ self.old.asks }
    {}

    /// Notes an ask, given by numbers (that of its queue, that of its kind, and the number that it names, or those of
    /// a place) and by bytes. It computes nothing: only its contract counts.
    fn note(&mut self, _numbers: &[u64], _bytes: &[u8])
        ensures { self.new.asks ≡ ask_noted _numbers.now _bytes.now ∷ self.old.asks }
    {}
}

// It owns nothing.
unsafe impl Send for Asked {}

/// Returns the number by which `queue` is noted: 0 for the append queue, 1 for the rewrite queue.
fn queue_number(queue: LogQueue) -> u64
    ensures { queue_noted result ≡ queue }
{
    match queue {
        LogQueue::Append => 0,
        LogQueue::Rewrite => 1,
    }
}
