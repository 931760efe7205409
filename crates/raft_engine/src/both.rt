//! Two machines side by side, which replay the same batches.

ghost use Rattle.std.specs.Prelude.{List};

use raft_base::{Factory, FileId, LogQueue, Result};
use raft_history::ReplayMachine;
use raft_records::{LogItemBatch, ReadBatch};
use std::alloc::Global;

/// Two machines, each of which replays all batches.
#[derive(Drop)]
pub struct Both<M: ReplayMachine, N: ReplayMachine> {
    /// The machine that replays each batch first.
    pub first: M,
    /// The machine that replays each batch after the other.
    pub second: N,
}

impl<M: ReplayMachine, N: ReplayMachine> ReplayMachine for Both<M, N> {
    ghost stands_for = { λ both h. M.stands_for both.first h × N.stands_for both.second h };

    ghost stands_exactly = { λ both h. M.stands_exactly both.first h × N.stands_exactly both.second h };

    /// Replays the batch in both machines, a copy of it in the second. After an error the first may have replayed it and the
    /// second not.
    fn replay(&mut self, batch: LogItemBatch, file_id: FileId) -> Result<()> {
        let other = batch.clone()?;
        self.first.replay(batch, file_id)?;
        self.second.replay(other, file_id)
    }

    /// Replays the batch, which is borrowed, in both machines. After an error the first may have replayed it and the second
    /// not.
    fn replay_read(&mut self, batch: &ReadBatch<'_>, file_id: FileId) -> Result<()> {
        self.first.replay_read(batch, file_id)?;
        self.second.replay_read(batch, file_id)
    }

    /// Merges both machines with those of `rhs`, which have replayed the batches that follow in `queue`. After an error the
    /// first may be merged and the second not.
    fn merge(&mut self, rhs: Both<M, N>, queue: LogQueue) -> Result<()> {
        let Both { first, second } = rhs;
        self.first.merge(first, queue)?;
        self.second.merge(second, queue)
    }

    ghost exact_stands = { λ both h e. (M.exact_stands both.first h e.0, N.exact_stands both.second h e.1) };
}

/// Makes pairs of machines, each one by a factory of its own.
#[derive(Drop)]
pub struct BothFactory<F: Drop, G: Drop> {
    /// The factory of the first machines.
    pub first: F,
    /// The factory of the second machines.
    pub second: G,
}

impl<M: ReplayMachine, N: ReplayMachine, F: Factory<M> + Drop, G: Factory<N> + Drop> Factory<
    Both<M, N>,
> for BothFactory<F, G> {
    ghost use Rattle.std.specs.Prelude.{◌⊎◌};

    ghost gives = { λ factory both. F.gives factory.first both.first × G.gives factory.second both.second };

    ghost may_refuse = { λ factory e. F.may_refuse factory.first e ⊎ G.may_refuse factory.second e };

    /// Makes a pair of machines that have replayed nothing.
    ///
    /// # Errors
    ///
    /// Those of both factories.
    fn new_target(&self, alloc: Global) -> Result<Both<M, N>> {
        Ok(Both {
            first: self.first.new_target(alloc)?,
            second: self.second.new_target(alloc)?,
        })
    }
}
