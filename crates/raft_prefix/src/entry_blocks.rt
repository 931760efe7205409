//! Checks the entry blocks of batches.

ghost use Rattle.std.specs.Prelude.{◌≡◌, ◌≢◌, true, false, IfErr, OnOk};
ghost use Rattle.raft_base.specs.Corruption.{IsCorruption};
ghost use Rattle.raft_base.specs.declared.pipe_log.LogQueue.TheVariants.{Rewrite};
ghost use Rattle.raft_prefix.specs.Blocks.{damaged_entries_text};
ghost use Rattle.raft_prefix.specs.Pieces.{IsBatchIn, IsGathered, IsSoundIn, IsUnsoundIn};

use raft_base::{Error, FileId, LogQueue, Result};
use raft_records::{LogBatch, lent_entry_block};
use raft_replay::segment::corruption_at;
use std::alloc::Global;

/// The length of the header of a batch, in bytes.
const HEADER_LEN: usize = 16;

/// Why a batch is refused whose entry block doesn't end in its checksum.
const DAMAGED_ENTRIES: &str = "the entries of this batch are damaged";

/// Returns the error for a batch with damaged entries that begins at `offset` of the file `id`: `Corruption`,
/// whose text begins with file and offset, or `Memory` if there is none for the text.
pub fn damage_at(alloc: Global, id: FileId, offset: u64) -> Error
    ensures { IsCorruption (damaged_entries_text id offset) result }
{
    corruption_at(alloc, id, offset, DAMAGED_ENTRIES)
}

/// Pushes `offset` to `damaged` if the batch at the start of `bytes` has damaged entries. `bytes` begin at
/// `offset` of the append file `id`. In a rewrite file such a batch is an error.
///
/// # Errors
///
/// `Corruption`, as [`damage_at`] has it, for a rewrite file; `Memory`. Nothing is pushed then.
pub(crate) fn push_offset_if_damaged(
    alloc: Global,
    id: FileId,
    offset: u64,
    bytes: &[u8],
    damaged: &mut Vec<u64>,
) -> Result<()>
    requires { IsBatchIn bytes.now }
    ensures ok { OnOk result (IsGathered id.queue offset bytes.now damaged.old.items damaged.new.items) }
    ensures refused { IfErr result (λ e. e ≢ Error.Memory → (id.queue ≡ Rewrite) × IsUnsoundIn bytes.now
        × IsCorruption (damaged_entries_text id offset) e) }
{
    if has_sound_entries(alloc, bytes) {
        return Ok(());
    }
    match id.queue {
        LogQueue::Append => Ok(damaged.push(offset)?),
        LogQueue::Rewrite => Err(damage_at(alloc, id, offset)),
    }
}

/// Tests whether the entry block of the batch at the start of `bytes` ends in its checksum, or is empty. A
/// batch that can be read must stand there.
fn has_sound_entries(alloc: Global, bytes: &[u8]) -> bool
    requires { IsBatchIn bytes.now }
    ensures sound { result ≡ true → IsSoundIn bytes.now }
    ensures unsound { result ≡ false → IsUnsoundIn bytes.now }
{
    let mut batch = bytes;
    let Ok((items_at, _, _)) = LogBatch::decode_header(alloc, &mut batch) else {
        return false;
    };
    lent_entry_block(alloc, batch, items_at - HEADER_LEN).is_ok()
}
