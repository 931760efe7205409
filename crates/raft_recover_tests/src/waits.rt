//! A gate of workers and a machine whose calls wait for one another on different threads.

use crate::machines::list_machine::List;
use raft_base::{Factory, FileId, LogQueue, Result};
use raft_records::LogItemBatch;
use raft_recover::{Gate, ReplayMachine};
use raft_trials::wait_until_reached;
use std::alloc::Global;
use std::sync::Arc;
use std::sync::atomic::{AtomicU64, Ordering};
use std::time::Clock;

/// Returns the bit that stands for a number below 64.
fn bit_of(number: u64) -> u64 {
    1 << (number % 64)
}

/// A gate that holds some segments back until all were passed.
#[derive(Drop)]
pub(crate) struct WaitGate<R: Drop> {
    rt: R,
    /// The first segment that is held back, and the one past the last.
    held: (usize, usize),
    /// The bits of all segments.
    all: u64,
    /// The bits of the segments that were passed.
    pub(crate) passed: Arc<AtomicU64, Global>,
    begun: Arc<AtomicU64, Global>,
    /// How many passes, replays and merges saw what they had to see.
    pub(crate) seen: Arc<AtomicU64, Global>,
}

impl<R: Drop> WaitGate<R> {
    /// Returns a gate of so many segments, which holds those from one up to another.
    pub(crate) fn new(
        rt: R,
        alloc: Global,
        held: (usize, usize),
        count: u64,
    ) -> Result<WaitGate<R>> {
        Ok(WaitGate {
            rt,
            held,
            all: bit_of(count).wrapping_sub(1),
            passed: Arc::new(alloc, AtomicU64::new(0))?,
            begun: Arc::new(alloc, AtomicU64::new(0))?,
            seen: Arc::new(alloc, AtomicU64::new(0))?,
        })
    }
}

impl<R: Clock + Send + Sync + Drop> Gate for WaitGate<R> {
    /// Notes that `segment` was passed. If the gate holds it, waits for all others, and counts once more if all come
    /// in time.
    fn pass(&self, segment: usize) {
        self.passed
            .fetch_or(bit_of(segment as u64), Ordering::SeqCst);
        let (from, to) = self.held;
        if from <= segment && segment < to && wait_until_reached(&self.rt, &self.passed, self.all) {
            self.seen.fetch_add(1, Ordering::SeqCst);
        }
    }
}

/// Makes machines that see which segments the gate has passed.
impl<R: Clock + Send + Sync + Copy + Drop> Factory<Waits<R>> for WaitGate<R> {
    ghost use Rattle.std.specs.Prelude.{◌≡◌, []};

    ghost gives = { λ _ m. m.list.kept.items ≡ [] };

    ghost may_refuse = { λ _ _. Unit {0} };

    /// Returns a list without batches that shares the counts of this gate.
    ///
    /// # Errors
    ///
    /// `Memory` alone.
    fn new_target(&self, alloc: Global) -> Result<Waits<R>> {
        Ok(Waits {
            rt: self.rt,
            list: List {
                kept: Vec::new(alloc),
            },
            passed: Arc::try_clone(&self.passed)?,
            begun: Arc::try_clone(&self.begun)?,
            seen: Arc::try_clone(&self.seen)?,
        })
    }
}

/// A machine that keeps a list of batches. Its replays check whether the segment with the file's number was passed, and
/// its merges wait until two have begun.
#[derive(Drop)]
pub(crate) struct Waits<R: Drop> {
    rt: R,
    pub(crate) list: List,
    passed: Arc<AtomicU64, Global>,
    begun: Arc<AtomicU64, Global>,
    seen: Arc<AtomicU64, Global>,
}

impl<R: Clock + Send + Drop> ReplayMachine for Waits<R> {
    ghost use Rattle.std.specs.Prelude.{◌≡◌, map};
    ghost use Rattle.raft_memtable.specs.ReplayMachine.{event};

    ghost stands_for = { λ m h. map (λ k. event k.batch k.file) m.list.kept.items ≡ h };

    ghost stands_exactly = { λ m h. map (λ k. event k.batch k.file) m.list.kept.items ≡ h };

    ghost exact_stands = { λ m h e. e };

    /// Appends the batch to the list. Counts it if its segment was passed before.
    ///
    /// # Errors
    ///
    /// `Memory` alone.
    fn replay(&mut self, batch: LogItemBatch, file_id: FileId) -> Result<()> {
        if self.passed.load(Ordering::SeqCst) & bit_of(file_id.seq) != 0 {
            self.seen.fetch_add(1, Ordering::SeqCst);
        }
        self.list.replay(batch, file_id)
    }

    /// Appends the batches of `rhs`. Waits for a second merge to begin, and counts if that comes in time.
    ///
    /// # Errors
    ///
    /// `Memory` alone.
    fn merge(&mut self, rhs: Self, queue: LogQueue) -> Result<()> {
        self.begun.fetch_add(1, Ordering::SeqCst);
        if wait_until_reached(&self.rt, &self.begun, 2) {
            self.seen.fetch_add(1, Ordering::SeqCst);
        }
        self.list.merge(rhs.list, queue)
    }
}
