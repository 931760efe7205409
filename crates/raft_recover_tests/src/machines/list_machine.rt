//! A machine that keeps a list of batches.

ghost use Rattle.std.specs.Prelude.{◌≡◌, map};

use raft_base::{Factory, FileId, LogQueue, Result};
use raft_records::LogItemBatch;
use raft_recover::ReplayMachine;
use std::alloc::Global;

/// A batch, and the file that it was written to.
#[derive(Drop)]
pub(crate) struct Kept {
    pub(crate) batch: LogItemBatch,
    pub(crate) file: FileId,
}

/// A machine that keeps all batches, in order.
#[derive(Drop)]
pub(crate) struct List {
    pub(crate) kept: Vec<Kept>,
}

impl List {
    /// Tests whether two lists have the same batches in the same files.
    pub(crate) fn has_same_batches(&self, other: &List) -> bool {
        let same = |(one, two): (&Kept, &Kept)| -> bool {
            one.batch == two.batch && one.file == two.file
        };
        self.kept.len() == other.kept.len() && self.kept.iter().zip(&other.kept).all(same)
    }
}

impl ReplayMachine for List {
    ghost use Rattle.std.specs.Prelude.{◌≡◌, map};
    ghost use Rattle.raft_memtable.specs.ReplayMachine.{event};

    ghost stands_for = { λ m h. map (λ k. event k.batch k.file) m.kept.items ≡ h };

    ghost stands_exactly = { λ m h. map (λ k. event k.batch k.file) m.kept.items ≡ h };

    ghost exact_stands = { λ m h e. e };

    /// Appends the batch to the list, with its file.
    ///
    /// # Errors
    ///
    /// `Memory` alone.
    fn replay(&mut self, batch: LogItemBatch, file_id: FileId) -> Result<()> {
        let file = file_id;
        self.kept.push(Kept { batch, file })?;
        Ok(())
    }

    /// Appends the batches of `rhs` to those of this list.
    ///
    /// # Errors
    ///
    /// `Memory` alone.
    fn merge(&mut self, rhs: Self, _queue: LogQueue) -> Result<()> {
        let List { mut kept } = rhs;
        self.kept.append(&mut kept)?;
        Ok(())
    }
}

/// Makes empty lists.
pub(crate) struct Lists;

impl Factory<List> for Lists {
    ghost use Rattle.std.specs.Prelude.{◌≡◌, []};

    ghost gives = { λ _ m. m.kept.items ≡ [] };

    ghost may_refuse = { λ _ _. ⊥ };

    /// Returns a list without batches.
    fn new_target(&self, alloc: Global) -> Result<List> {
        Ok(List {
            kept: Vec::new(alloc),
        })
    }
}
