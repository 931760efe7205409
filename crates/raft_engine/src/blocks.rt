//! The check of the entry blocks of the last rewrite file at an opening.

ghost use Rattle.std.specs.Prelude.{◌≡◌, ◌≢◌, ℕ, List, IfErr, IfOk, OnOk};
ghost use Rattle.raft_base.specs.Corruption.{IsCorruption};
ghost use Rattle.raft_records.specs.FilePart.{IsBatchAt};
ghost use Rattle.raft_records.specs.Item.{Item};
ghost use Rattle.raft_engine_prefixes.specs.TornTails.{StopsAt};
ghost use Rattle.raft_engine.specs.CutTails.{IsTornAs};
ghost use Rattle.raft_engine.specs.SoundBlocks.{AreBlocksSound, HasSoundBlock, IsPartSound, IsUnsoundAs, damaged_entries_text};

use crate::recovered::CutTail;
use raft_base::{Error, LogQueue, Result};
use raft_records::{FilePart, LogBatch, lent_entry_block};
use raft_replay::segment::corruption_at;

/// The length of a batch's header in bytes.
pub(crate) const HEADER_LEN: usize = 16;

/// The text of the error for a batch whose entry block doesn't end in its checksum.
pub(crate) const DAMAGED_ENTRIES: &str = "the entries of this batch are damaged";

/// Checks that no batch of a rewrite file before `tail` has damaged entries: a purge would delete the older places of records
/// that moved there. An append file isn't checked. Items of batches aren't read.
///
/// # Errors
///
/// `Corruption`, which names the file and the offset of the first batch with damaged entries; `Memory`.
pub fn check_blocks(file: &FilePart, tail: &Option<CutTail>) -> Result<()>
    requires { IsTornAs file.now tail.now }
    ensures ok { OnOk result (IsPartSound file.now) }
    ensures refused { IfErr result (λ e. e ≢ Error.Memory
        → (file.now.id.queue ≡ LogQueue.Rewrite) × IsUnsoundAs file.now e) }
{
    match file.id().queue {
        LogQueue::Append => Ok(()),
        LogQueue::Rewrite => check_all_blocks(file, end_of_batches(file, tail)),
    }
}

/// Returns the position at which the batches of a file with this tail end: that of the tail, or the end of the file without
/// one.
pub(crate) fn end_of_batches(file: &FilePart, tail: &Option<CutTail>) -> usize
    requires { IsTornAs file.now tail.now }
    ensures { StopsAt file.now result }
{
    match tail {
        Some(tail) => tail.offset as usize,
        None => file.bytes().len(),
    }
}

/// Checks the entries of all batches of a file, which end at position `end`.
///
/// # Errors
///
/// Those of [`check_blocks`], for the first batch with damaged entries.
fn check_all_blocks(file: &FilePart, end: usize) -> Result<()>
    requires { StopsAt file.now end }
    ensures ok { OnOk result (AreBlocksSound file.now) }
    ensures refused { IfErr result (λ e. e ≢ Error.Memory → IsUnsoundAs file.now e) }
{
    let mut at = 0;
    while at < end {
        at = check_block(file, at)?;
    }
    Ok(())
}

/// Checks the entries of the batch at position `at` of a file. Returns the position at which the batch ends.
///
/// # Errors
///
/// Those of [`check_blocks`].
fn check_block(file: &FilePart, at: usize) -> Result<usize>
    requires { (items : List Item) × (next : ℕ) × IsBatchAt file.now at items next }
    ensures ok { IfOk result (λ end. (items : List Item) (next : ℕ) (b : IsBatchAt file.now at items next)
        → HasSoundBlock b × (end ≡ next)) }
    ensures refused { IfErr result (λ e. e ≢ Error.Memory
        → ((items : List Item) (next : ℕ) (b : IsBatchAt file.now at items next) → ¬ (HasSoundBlock b))
        × IsCorruption (damaged_entries_text file.now.id at) e) }
{
    let alloc = file.allocator();
    let (_, mut batch) = file.bytes().split_at(at);
    let (items_at, _, len) = LogBatch::decode_header(alloc, &mut batch)?;
    let Ok(_) = lent_entry_block(alloc, batch, items_at - HEADER_LEN) else {
        return Err(corruption_at(alloc, file.id(), at as u64, DAMAGED_ENTRIES));
    };
    Ok(at + len)
}
