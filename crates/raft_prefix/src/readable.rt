//! The readable batches at the start of some bytes.

ghost use Rattle.std.specs.Prelude.{◌≡◌, ◌≢◌, ◌+◌, ◌<◌, ◌^◌, length, take, drop, IfErr, IfOk, IfSome, MatchOption, OnOk};
ghost use Rattle.raft_base.specs.Signature.{signature_of};
ghost use Rattle.raft_base.specs.declared.pipe_log.LogQueue.TheVariants.{Rewrite};
ghost use Rattle.raft_codec.specs.Reading.{HasNoFront};
ghost use Rattle.raft_records.specs.FilePart.{IsNextFault, part_of};
ghost use Rattle.raft_records.specs.LogBatch.{IsReadable};
ghost use Rattle.raft_replay.specs.Replays.{HasReplayed};
ghost use Rattle.raft_replay.specs.Segments.{HoldsFrom};
ghost use Rattle.raft_prefix.specs.Pieces.{ArePassed, IsRefusedBehind};

use crate::entry_blocks::push_offset_if_damaged;
use raft_base::{Error, LogFileContext, Result};
use raft_history::ReplayMachine;
use raft_records::ReadBatch;
use std::alloc::Global;

/// Reads batch after batch from the start of `bytes`, which stand in `file` from `offset` on, up to the first
/// that can't be read. Returns how many bytes the batches before it have, and why it can't be read; `None` if
/// `bytes` end with a batch. If `bytes` are a piece of a file, the reason may be only that the batch goes on
/// after them.
///
/// In an append file, the offset in the file of each batch with damaged entries is pushed to `damaged`.
///
/// # Errors
///
/// `Corruption` at the first batch of a rewrite file with damaged entries; `Memory`. Some offsets may have
/// been pushed then.
pub fn read_readable_batches(
    alloc: Global,
    file: &LogFileContext,
    offset: u64,
    bytes: &[u8],
    damaged: &mut Vec<u64>,
) -> Result<(usize, Option<Error>)>
    requires ends { offset + length bytes.now < 2 ^ 64 }
    ensures passed { IfOk result (λ stop. ArePassed file.now offset bytes.now damaged.old.items damaged.new.items stop.0) }
    ensures whole { IfOk result (λ stop. MatchOption stop.1 (stop.0 ≡ length bytes.now) (λ e. stop.0 < length bytes.now)) }
    ensures refused { IfOk result (λ stop. IfSome stop.1 (λ e. (e ≢ Error.Memory)
        × HasNoFront (λ xs. IsReadable xs (signature_of file.now)) (drop stop.0 bytes.now))) }
    ensures fault { IfOk result (λ stop. IfSome stop.1 (IsNextFault (signature_of file.now) (drop stop.0 bytes.now))) }
    ensures damaged { IfErr result (λ e. e ≢ Error.Memory → (file.now.id.queue ≡ Rewrite)
        × IsRefusedBehind file.now offset bytes.now damaged.old.items e) }
{
    let mut batch = ReadBatch::new(alloc, file.id);
    let mut at = 0;
    loop {
        match batch.read_next(file, offset, bytes, at) {
            Ok(Some(next)) => {
                let (_, own) = bytes.split_at(at);
                push_offset_if_damaged(alloc, file.id, offset + at as u64, own, damaged)?;
                at = next;
            }
            Ok(None) => return Ok((at, None)),
            Err(error) => {
                check_not_memory(&error)?;
                return Ok((at, Some(error)));
            }
        }
    }
}

/// Replays batch after batch from the start of `bytes`, which stand in `file` from `offset` on, into
/// `machine`, up to the first that can't be read. Returns how many bytes the batches before it have, and why
/// it can't be read; `None` if `bytes` end with a batch. As [`read_readable_batches`] does, it pushes the
/// offset in the file of each batch of an append file with damaged entries to `damaged`.
///
/// # Errors
///
/// Those of [`read_readable_batches`] and of the machine. Some of the batches may have been replayed, and
/// some offsets pushed, then.
pub fn replay_readable<M: ReplayMachine>(
    machine: &mut M,
    alloc: Global,
    file: &LogFileContext,
    offset: u64,
    bytes: &[u8],
    damaged: &mut Vec<u64>,
) -> Result<(usize, Option<Error>)>
    requires ends { offset + length bytes.now < 2 ^ 64 }
    ensures replayed { IfOk result (λ stop. HasReplayed (HoldsFrom (part_of file.now offset (take stop.0 bytes.now)) 0)
        M.stands_for M.stands_exactly machine.old machine.new) }
    ensures passed { IfOk result (λ stop. ArePassed file.now offset bytes.now damaged.old.items damaged.new.items stop.0) }
    ensures whole { IfOk result (λ stop. MatchOption stop.1 (stop.0 ≡ length bytes.now) (λ e. stop.0 < length bytes.now)) }
    ensures refused { IfOk result (λ stop. IfSome stop.1 (λ e. (e ≢ Error.Memory)
        × HasNoFront (λ xs. IsReadable xs (signature_of file.now)) (drop stop.0 bytes.now))) }
    ensures fault { IfOk result (λ stop. IfSome stop.1 (IsNextFault (signature_of file.now) (drop stop.0 bytes.now))) }
{
    let mut batch = ReadBatch::new(alloc, file.id);
    let mut at = 0;
    loop {
        match batch.read_next(file, offset, bytes, at) {
            Ok(Some(next)) => {
                let (_, rest) = bytes.split_at(at);
                push_offset_if_damaged(alloc, file.id, offset + at as u64, rest, damaged)?;
                machine.replay_read(&batch, file.id)?;
                at = next;
            }
            Ok(None) => return Ok((at, None)),
            Err(error) => {
                check_not_memory(&error)?;
                return Ok((at, Some(error)));
            }
        }
    }
}

/// Checks that `error` isn't `Memory`: that alone ends a reading with an error, any other says that no batch
/// can be read there.
///
/// # Errors
///
/// `Memory`, if `error` is that.
fn check_not_memory(error: &Error) -> Result<()>
    ensures ok { OnOk result (error.now ≢ Error.Memory) }
    ensures memory { IfErr result (λ e. e ≡ Error.Memory) }
{
    if matches!(error, Error::Memory) {
        return Err(Error::Memory);
    }
    Ok(())
}
