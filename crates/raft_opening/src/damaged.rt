//! The damaged batches of a file, by their offsets.

ghost use Rattle.std.specs.Prelude.{◌≡◌, IfErr, IfOk};
ghost use Rattle.raft_opening.specs.NamedBatches.{AreNamed};

use raft_base::{Error, FileId, Result};
use raft_engine::DamagedBatch;
use raft_engine::found::unless_memory;
use raft_prefix::entry_blocks::damage_at;
use std::alloc::Global;

/// Returns the batches of `file` that begin at `offsets`, each with the error with which its damaged entries are refused. Whether
/// they are damaged isn't tested.
///
/// # Errors
///
/// `Memory` alone.
pub fn named_batches(alloc: Global, file: FileId, offsets: &[u64]) -> Result<Vec<DamagedBatch>>
    ensures ok { IfOk result (λ batches. AreNamed file offsets.now batches.items) }
    ensures memory { IfErr result (λ e. e ≡ Error.Memory) }
{
    let mut batches = Vec::new(alloc);
    for offset in offsets {
        let error = damage_at(alloc, file, *offset);
        unless_memory(&error)?;
        batches.push(DamagedBatch {
            file: file.seq,
            offset: *offset,
            error,
        })?;
    }
    Ok(batches)
}
