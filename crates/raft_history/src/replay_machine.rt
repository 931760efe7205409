//! [`ReplayMachine`]: the trait of what the batches of a queue are replayed into.

ghost use Rattle.std.specs.Prelude.{◌≢◌, List, [], ◌∷◌, ◌++◌, OnOk, IfErr};
ghost use Rattle.raft_history.specs.Common.{Error, Event, IsSmall, Sound, Apart, IsOfQueue, event};

use raft_base::{FileId, LogQueue, Result};
use raft_records::{LogItemBatch, ReadBatch};

/// What the batches of a queue are replayed into, such as the tables of all regions. Each worker of a recovery
/// replays the batches of neighboring segments into a machine of its own; the machines of neighbors are then merged.
///
/// What the state of a machine says of the batches is told by two relations, which each machine defines: it *stands
/// for* a history of batches, and it stands for it *exactly*. For histories of fewer than 2^63 entries, key values
/// and deletions together, every successful call keeps both; a merge keeps exactness if the effects of the whole
/// history are apart. A call is refused only for lack of memory, if the history can't be read, or if the queue that
/// is handed to `merge` isn't that of the batches.
pub trait ReplayMachine: Send + Drop {
    /// The machine stands for this history.
    ghost stands_for: { Self → List Event → Type 0 };

    /// The machine stands for this history, and holds all that it says.
    ghost stands_exactly: { Self → List Event → Type 0 };

    /// Replays one more batch, which is in the file `file_id`, after those that the machine has replayed.
    ///
    /// # Errors
    ///
    /// `Memory`; any other error only if the batches so far and this one aren't a sound history. What the machine
    /// stands for then isn't said.
    fn replay(&mut self, batch: LogItemBatch, file_id: FileId) -> Result<()>
        ensures stands { (h : List Event) → IsSmall (h ++ event batch file_id ∷ [])
            → stands_for self.old h
            → OnOk result (stands_for self.new (h ++ event batch file_id ∷ [])) }
        ensures exact { (h : List Event) → IsSmall (h ++ event batch file_id ∷ [])
            → stands_exactly self.old h
            → OnOk result (stands_exactly self.new (h ++ event batch file_id ∷ [])) }
        ensures refused { IfErr result (λ e. e ≢ Error.Memory → (h : List Event)
            → IsSmall (h ++ event batch file_id ∷ []) → stands_for self.old h
            → ¬ (Sound (h ++ event batch file_id ∷ []))) };

    /// Replays one more batch, which is in the file `file_id`, as [`ReplayMachine::replay`] does. Its keys and values
    /// are still borrowed from the bytes that it was read from, so a machine needs to copy only what it keeps. If a
    /// machine doesn't implement this, the batch is copied into a [`LogItemBatch`], and that is replayed.
    ///
    /// # Errors
    ///
    /// `Memory`, also if there is none for a copy; any other error only if the batches so far and this one aren't a
    /// sound history. What the machine stands for then isn't said.
    fn replay_read(&mut self, batch: &ReadBatch<'_>, file_id: FileId) -> Result<()>
        ensures stands { (h : List Event) → IsSmall (h ++ event batch.now file_id ∷ [])
            → stands_for self.old h
            → OnOk result (stands_for self.new (h ++ event batch.now file_id ∷ [])) }
        ensures exact { (h : List Event) → IsSmall (h ++ event batch.now file_id ∷ [])
            → stands_exactly self.old h
            → OnOk result (stands_exactly self.new (h ++ event batch.now file_id ∷ [])) }
        ensures refused { IfErr result (λ e. e ≢ Error.Memory → (h : List Event)
            → IsSmall (h ++ event batch.now file_id ∷ []) → stands_for self.old h
            → ¬ (Sound (h ++ event batch.now file_id ∷ []))) }
    {
        let own = batch.to_batch(batch.allocator())?;
        self.replay(own, file_id)
    }

    /// Takes in `rhs`, the machine of the batches right after this one's. All batches of both must be of `queue`.
    ///
    /// # Errors
    ///
    /// `Memory`; any other error only if the two histories, one after the other, aren't a sound one, or `queue` isn't
    /// theirs. What the machine stands for then isn't said.
    fn merge(&mut self, rhs: Self, queue: LogQueue) -> Result<()>
        ensures stands { (h g : List Event) → IsSmall (h ++ g) → stands_for self.old h
            → stands_for rhs g → OnOk result (stands_for self.new (h ++ g)) }
        ensures exact { (h g : List Event) → IsSmall (h ++ g) → Apart (h ++ g)
            → stands_exactly self.old h → stands_exactly rhs g
            → OnOk result (stands_exactly self.new (h ++ g)) }
        ensures refused { IfErr result (λ e. e ≢ Error.Memory → (h g : List Event)
            → IsSmall (h ++ g) → IsOfQueue queue (h ++ g) → stands_for self.old h → stands_for rhs g
            → ¬ (Sound (h ++ g))) };

    /// A machine that stands exactly for a history stands for it.
    ghost exact_stands: { (m : Self) (h : List Event) → stands_exactly m h → stands_for m h };
}
