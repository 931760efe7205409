//! [`HandedFiles`]: the files of an engine that its caller keeps.

ghost use Rattle.std.specs.Prelude.{◌≡◌, ◌+◌, [], ◌∷◌, length, option_map, IfErr, IfNone, IfOk, IfSome, None, OnErr, OnOk};
ghost use Rattle.raft_files.specs.Appends.{IsNotAppended, append_fault};
ghost use Rattle.raft_files.specs.Asks.{Begin, Cut, Delete, Put, Read, Sync, ask};
ghost use Rattle.raft_orders.specs.Orders.{IsOrder, all_to_do, ask_of, next_to_do};
ghost use Rattle.raft_orders.specs.Refusals.{HandedFails, IsUnordered, IsUnread};

use crate::lent_blocks::LentBlocks;
use crate::order::{Order, Task};
use crate::waiting_orders::{NumberedOrder, WaitingOrders};
use raft_base::{Error, FileBlockHandle, FileId, FileSeq, LogQueue, Result};
use raft_files::{AppendError, Asked, EngineFiles};
use std::alloc::Global;
use std::marker::Model;

/// The files of both queues, which the caller keeps. What is asked of them waits as *orders*, and a read returns bytes that the
/// caller has *lent* before.
///
/// The caller takes the orders in turn, and carries out each of them, as [`EngineFiles`] says of the call of its name, before
/// the next one. So at any time a prefix of what was asked is carried out, and what a crash leaves is what it may leave of that
/// prefix. What is promised of an engine at every moment, also in the midst of a call, therefore holds. A call of the engine is
/// durable only once its orders are carried out. If an order fails, neither it nor any later one may be carried out until the
/// files are found again.
#[derive(Drop)]
pub struct HandedFiles {
    /// The allocator of orders and lent bytes.
    alloc: Global,
    /// The orders that weren't taken yet.
    waiting: WaitingOrders,
    /// The bytes for reads.
    lent: LentBlocks,
    /// What was asked, for contracts alone.
    asked: Asked,
}

impl Model for HandedFiles {
    ghost use Rattle.raft_orders.specs.Handed.{Handed};
    ghost use Rattle.raft_orders.specs.HandedCode.{handed_code};

    ghost Value = { Handed };

    ghost coded = { handed_code };

    ghost use Rattle.raft_orders.specs.HandedView.{handed_shown, IsHanded};

    ghost view = { handed_shown };

    ghost invariant = { IsHanded };
}

impl HandedFiles {
    /// Returns files that were found when the machine started, without orders that wait. `found` notes the files and nothing
    /// that is still to be done; all of their bytes must be on the disk.
    pub fn found(alloc: Global, found: Asked) -> HandedFiles
        requires { all_to_do found.asks ≡ [] }
        ensures asks { result.asks ≡ found.asks }
        ensures taken { result.taken ≡ 0 }
    {
        HandedFiles {
            alloc,
            waiting: WaitingOrders::new(alloc),
            lent: LentBlocks::new(alloc),
            asked: found,
        }
    }

    /// Returns the oldest order that waits, or `None` if none waits.
    pub fn first_order(&self) -> Option<&Order>
        ensures { option_map (λ o. ask_of o.now) result ≡ next_to_do self.now.asks self.now.taken }
    {
        self.waiting.first()
    }

    /// Returns how many orders were taken. That is also the number of the oldest order that waits.
    pub fn taken(&self) -> u64
        ensures { result ≡ self.now.taken }
    {
        self.waiting.taken()
    }

    /// Removes the oldest order that waits, and returns it with its number: how many orders were taken before it. Returns
    /// `None` if none waits.
    pub fn take_order(&mut self) -> Option<NumberedOrder>
        ensures some { IfSome result (IsOrder self.old.asks self.old.taken) }
        ensures none { IfNone result (next_to_do self.old.asks self.old.taken ≡ None) }
        ensures asks { self.new.asks ≡ self.old.asks }
        ensures taken { IfSome result (λ o. self.new.taken ≡ self.old.taken + 1) }
        ensures same { IfNone result (self.new.taken ≡ self.old.taken) }
    {
        self.waiting.take_oldest()
    }

    /// Keeps a copy of `bytes`, which are in `file` from `offset` on, for reads. It replaces what was lent for the same file
    /// and offset.
    ///
    /// # Errors
    ///
    /// `Memory` alone.
    pub fn lend(&mut self, file: FileId, offset: u64, bytes: &[u8]) -> Result<()>
        ensures same { self.new ≡ self.old }
        ensures memory { IfErr result (λ e. e ≡ Error.Memory) }
    {
        self.lent.lend(self.alloc, file, offset, bytes)
    }

    /// Adds the order to put a copy of `bytes` at the end of the last file of `queue`, and notes it.
    ///
    /// # Errors
    ///
    /// `Memory`; `Full` after 2^64 - 1 orders. Nothing is asked then.
    fn order_put(&mut self, queue: LogQueue, bytes: &[u8]) -> Result<()>
        ensures ok { OnOk result (self.new.asks ≡ ask queue (Put bytes.now) ∷ self.old.asks) }
        ensures taken { self.new.taken ≡ self.old.taken }
        ensures err { OnErr result (self.new ≡ self.old) }
        ensures fault { IfErr result IsUnordered }
    {
        let task = Task::Put(Vec::from_slice(self.alloc, bytes)?);
        self.waiting.push(Order { queue, task })?;
        self.asked.put(queue, bytes);
        Ok(())
    }

    /// Drops all bytes that were lent, so that a read returns `TryAgain`.
    pub fn clear_lent(&mut self)
        ensures { self.new ≡ self.old }
    {
        self.lent.clear();
    }
}

impl EngineFiles for HandedFiles {
    ghost asked = { λ f. f.asks };

    ghost may_fail = { HandedFails };

    /// Adds the order to put a copy of `bytes` at the end of the last file of `queue`.
    ///
    /// # Errors
    ///
    /// `InPart` alone, with `Memory`, or with `Full` after 2^64 - 1 orders. Nothing is asked then; but an engine whose orders
    /// can't be noted is to take no further ones, so it isn't told that all is as before.
    fn append(&mut self, queue: LogQueue, bytes: &[u8]) -> std::result::Result<(), AppendError>
        ensures ok { OnOk result (self.new.asks ≡ ask queue (Put bytes.now) ∷ self.old.asks) }
        ensures taken { self.new.taken ≡ self.old.taken }
        ensures err { OnErr result (self.new ≡ self.old) }
        ensures noted { IfErr result (λ e. IsNotAppended (ask queue (Put bytes.now)) e self.old.asks self.new.asks) }
        ensures fault { IfErr result (λ e. IsUnordered (append_fault e)) }
    {
        match self.order_put(queue, bytes) {
            Ok(()) => Ok(()),
            Err(error) => Err(AppendError::InPart(error)),
        }
    }

    /// Adds the order to sync the last file of `queue` and to begin a new one with the number `seq` after it.
    ///
    /// # Errors
    ///
    /// `Memory`; `Full` after 2^64 - 1 orders. Nothing is asked then.
    fn rotate(&mut self, queue: LogQueue, seq: FileSeq) -> Result<()>
        ensures ok { OnOk result (self.new.asks ≡ ask queue (Begin seq) ∷ self.old.asks) }
        ensures taken { self.new.taken ≡ self.old.taken }
        ensures err { OnErr result (self.new ≡ self.old) }
        ensures fault { IfErr result IsUnordered }
    {
        let task = Task::Begin(seq);
        self.waiting.push(Order { queue, task })?;
        self.asked.begin(queue, seq);
        Ok(())
    }

    /// Adds the order to sync `queue`. It is synced once the order is carried out.
    ///
    /// # Errors
    ///
    /// `Memory`; `Full` after 2^64 - 1 orders. Nothing is asked then.
    fn sync(&mut self, queue: LogQueue) -> Result<()>
        ensures ok { OnOk result (self.new.asks ≡ ask queue Sync ∷ self.old.asks) }
        ensures taken { self.new.taken ≡ self.old.taken }
        ensures err { OnErr result (self.new ≡ self.old) }
        ensures fault { IfErr result IsUnordered }
    {
        let task = Task::Sync;
        self.waiting.push(Order { queue, task })?;
        self.asked.sync(queue);
        Ok(())
    }

    /// Adds the order to delete the oldest file of `queue`.
    ///
    /// # Errors
    ///
    /// `Memory`; `Full` after 2^64 - 1 orders. Nothing is asked then.
    fn delete_oldest(&mut self, queue: LogQueue) -> Result<()>
        ensures ok { OnOk result (self.new.asks ≡ ask queue Delete ∷ self.old.asks) }
        ensures taken { self.new.taken ≡ self.old.taken }
        ensures err { OnErr result (self.new ≡ self.old) }
        ensures fault { IfErr result IsUnordered }
    {
        let task = Task::Delete;
        self.waiting.push(Order { queue, task })?;
        self.asked.delete(queue);
        Ok(())
    }

    /// Adds the order to cut the last file of `queue` to its first `len` bytes, if it has more.
    ///
    /// # Errors
    ///
    /// `Memory`; `Full` after 2^64 - 1 orders. Nothing is asked then.
    fn truncate(&mut self, queue: LogQueue, len: u64) -> Result<()>
        ensures ok { OnOk result (self.new.asks ≡ ask queue (Cut len) ∷ self.old.asks) }
        ensures taken { self.new.taken ≡ self.old.taken }
        ensures err { OnErr result (self.new ≡ self.old) }
        ensures fault { IfErr result IsUnordered }
    {
        let task = Task::Cut(len);
        self.waiting.push(Order { queue, task })?;
        self.asked.cut(queue, len);
        Ok(())
    }

    /// Returns a copy of the bytes that were lent for `place`, and notes the read. No order is made.
    ///
    /// # Errors
    ///
    /// `TryAgain` if no bytes were lent for the file and offset of `place`, or a different number of them; `Memory`. Nothing is
    /// noted then.
    fn read(&mut self, place: FileBlockHandle) -> Result<Vec<u8>>
        ensures ok { IfOk result (λ bytes. self.new.asks ≡ ask place.id.queue (Read place bytes.items) ∷ self.old.asks) }
        ensures len { IfOk result (λ bytes. length bytes.items ≡ place.len) }
        ensures taken { self.new.taken ≡ self.old.taken }
        ensures err { OnErr result (self.new ≡ self.old) }
        ensures fault { IfErr result IsUnread }
    {
        let bytes = self.lent.read(self.alloc, place)?;
        self.asked.read(place, &bytes);
        Ok(bytes)
    }
}
