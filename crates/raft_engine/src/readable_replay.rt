//! Replaying a file up to where its reading stops.

ghost use Rattle.std.specs.Prelude.{◌≡◌, ◌≢◌, ◌+◌, ◌<◌, ◌^◌, length, drop, IfOk, IfSome, MatchOption};
ghost use Rattle.raft_base.specs.Signature.{signature_of};
ghost use Rattle.raft_codec.specs.Reading.{HasNoFront};
ghost use Rattle.raft_records.specs.FilePart.{IsNextFault, part_of};
ghost use Rattle.raft_records.specs.LogBatch.{IsReadable};
ghost use Rattle.raft_replay.specs.Replays.{HasReplayed};
ghost use Rattle.raft_engine.specs.ReadQueues.{IsHistoryUpTo, IsReplayedTo};

use crate::found::unless_memory;
use crate::recovered::CutTail;
use raft_base::{Error, LogFileContext, Result};
use raft_history::ReplayMachine;
use raft_records::{FilePart, ReadBatch};
use std::alloc::Global;

/// Replays the batches of a whole file up to the first byte at which no batch can be read. Returns the tail from there on;
/// `None` if all of the file can be read.
///
/// # Errors
///
/// `Memory`, and those of the machine. Some of the batches may have been replayed then.
pub fn replay_whole_file<M: ReplayMachine>(
    machine: &mut M,
    file: &FilePart,
) -> Result<Option<CutTail>>
    ensures { IfOk result (λ tail. IsReplayedTo M.stands_for M.stands_exactly file.now machine.old machine.new tail) }
{
    let context = LogFileContext::new(file.id(), file.version());
    let (at, stopped) = replay_readable(
        machine,
        file.allocator(),
        &context,
        file.offset(),
        file.bytes(),
    )?;
    let Some(error) = stopped else {
        return Ok(None);
    };
    unless_memory(&error)?;
    Ok(Some(CutTail::from(file, at, error)))
}

/// Replays the batches at the start of `bytes`, which stand in `file` from `offset` on, up to the first byte at which no batch
/// can be read. Returns how many bytes these batches have, and the error for which the next one can't be read, which may be
/// `Memory`; `None` if all of `bytes` can be read.
///
/// # Errors
///
/// Those of the machine. Some of the batches may have been replayed then.
fn replay_readable<M: ReplayMachine>(
    machine: &mut M,
    alloc: Global,
    file: &LogFileContext,
    offset: u64,
    bytes: &[u8],
) -> Result<(usize, Option<Error>)>
    requires ends { offset + length bytes.now < 2 ^ 64 }
    ensures replayed { IfOk result (λ stop. HasReplayed (IsHistoryUpTo (part_of file.now offset bytes.now) stop.0)
        M.stands_for M.stands_exactly machine.old machine.new) }
    ensures whole { IfOk result (λ stop. MatchOption stop.1 (stop.0 ≡ length bytes.now) (λ e. stop.0 < length bytes.now)) }
    ensures refused { IfOk result (λ stop. IfSome stop.1 (λ e. e ≢ Error.Memory
        → HasNoFront (λ xs. IsReadable xs (signature_of file.now)) (drop stop.0 bytes.now))) }
    ensures fault { IfOk result (λ stop. IfSome stop.1 (IsNextFault (signature_of file.now) (drop stop.0 bytes.now))) }
{
    let mut batch = ReadBatch::new(alloc, file.id);
    let mut at = 0;
    loop {
        match batch.read_next(file, offset, bytes, at) {
            Ok(Some(next)) => {
                machine.replay_read(&batch, file.id)?;
                at = next;
            }
            Ok(None) => return Ok((at, None)),
            Err(error) => return Ok((at, Some(error))),
        }
    }
}
