//! Segments of a queue, and their replay into a machine by one thread.

ghost use Rattle.std.specs.Prelude.{◌≡◌, ◌≢◌, ◌+◌, ◌^◌, ◌<◌, ◌++◌, List, Vec, length, IfOk, OnOk, IfErr};
ghost use Rattle.raft_replay.specs.Common.{Global, error_kind, IsCorruption, Part, part_of, Event, IsSmall, HasReplayed, CannotFollow, HoldsFrom, EachHolds, SegmentsHold, queue_text, place_text, IsPlaced, IsStoodFor, IsWithPlace};
ghost use Rattle.raft_replay.specs.Common.{StopsAmong, StopsByFault, bytes_of_segments, WrittenBatchIsHeld};

use raft_base::{AllocResult, Error, FileId, LogFileContext, LogQueue, Result};
use raft_codec::codec;
use raft_history::ReplayMachine;
use raft_records::{FilePart, ReadBatch};
use std::alloc::Global;
use std::io;

/// Parts of files of a queue, in order.
pub type Segment = Vec<FilePart>;

/// Replays every batch of every part of `segment` into `machine`, in order.
///
/// # Errors
///
/// `Memory`. Any other comes only if a part isn't a sequence of readable batches, or its batches can't follow
/// those that the machine stands for. The text of a `Corruption`, `Codec` or `Io` begins with the queue, the
/// file and the offset of the batch that was refused, as `append file 3, offset 1024: `. How many batches the
/// machine has replayed then isn't known.
pub fn replay_segment<M: ReplayMachine>(machine: &mut M, segment: &Segment) -> Result<()>
    ensures ok { OnOk result
        (HasReplayed (EachHolds (λ part. HoldsFrom part 0) segment.entry.now.items) M.stands_for
        M.stands_exactly machine.old machine.new) }
    ensures refused { IfErr result (λ e. e ≢ Error.Memory
        → CannotFollow (EachHolds (λ part. HoldsFrom part 0) segment.entry.now.items)
        (M.stands_for machine.old)) }
    ensures place { IfErr result (StopsAmong (M.stands_for machine.old) (IsStoodFor M.stands_for)
        segment.entry.now.items) }
{
    for part in segment {
        let log = LogFileContext::new(part.id(), part.version());
        replay_bytes(machine, part.allocator(), &log, part.offset(), part.bytes())?;
    }
    Ok(())
}

/// Replays every batch of `bytes` into `machine`, in order. The bytes stand in the file `file` from `offset`
/// on, and must end below offset 2^64. `alloc` is for the batch that is read, and for errors.
///
/// # Errors
///
/// `Memory`. Any other comes only if the bytes aren't a sequence of readable batches, or their batches can't
/// follow those that the machine stands for. The text of a `Corruption`, `Codec` or `Io` begins with the
/// place of the batch that was refused, as in [`replay_segment`]. How many batches the machine has replayed
/// then isn't known.
pub fn replay_bytes<M: ReplayMachine>(
    machine: &mut M,
    alloc: Global,
    file: &LogFileContext,
    offset: u64,
    bytes: &[u8],
) -> Result<()>
    requires ends { offset + length bytes.now < 2 ^ 64 }
    ensures ok { OnOk result (HasReplayed (HoldsFrom (part_of file.now offset bytes.now) 0)
        M.stands_for M.stands_exactly machine.old machine.new) }
    ensures refused { IfErr result (λ e. e ≢ Error.Memory
        → CannotFollow (HoldsFrom (part_of file.now offset bytes.now) 0)
        (M.stands_for machine.old)) }
    ensures place { IfErr result (StopsByFault (M.stands_for machine.old)
        (IsStoodFor M.stands_for) (part_of file.now offset bytes.now)) }
{
    let mut batch = ReadBatch::new(alloc, file.id);
    let mut at = 0;
    loop {
        match batch.read_next(file, offset, bytes, at) {
            Ok(Some(next)) => {
                if let Err(error) = machine.replay_read(&batch, file.id) {
                    return Err(error_with_place(alloc, error, file.id, offset + at as u64));
                }
                at = next;
            }
            Ok(None) => return Ok(()),
            Err(error) => return Err(error_with_place(alloc, error, file.id, offset + at as u64)),
        }
    }
}

/// Returns `error` with the place of a batch before its text, if it is a `Corruption`, an `Io` or a `Codec`:
/// the queue, the file and the offset, as `append file 3, offset 1024: `. Other errors are returned as they
/// are. Returns `Memory` if there is none for the text.
fn error_with_place(alloc: Global, error: Error, id: FileId, offset: u64) -> Error
    ensures placed { IsPlaced id offset result }
    ensures same { IsWithPlace id offset error result }
    ensures memory { result ≢ Error.Memory → error ≢ Error.Memory }
{
    match error {
        Error::Corruption(reason) => corruption_at(alloc, id, offset, reason.as_str()),
        Error::Io(error) => match io_error_with_place(alloc, error, id, offset) {
            Ok(error) => Error::Io(error),
            Err(_) => Error::Memory,
        },
        Error::Codec(codec::Error::Io(error)) => match io_error_with_place(
            alloc, error, id, offset,
        ) {
            Ok(error) => Error::Codec(codec::Error::Io(error)),
            Err(_) => Error::Memory,
        },
        kept => kept,
    }
}

/// Returns a `Corruption` for something at `offset` of the file `id`, with the text
/// `append file 3, offset 1024: ` and then `reason`. Returns `Memory` if there is none for the text.
#[doc(hidden)]
pub fn corruption_at(alloc: Global, id: FileId, offset: u64, reason: &str) -> Error
    ensures { IsCorruption (place_text id offset ++ reason.now) result }
{
    let queue = queue_name(id.queue);
    match format!(in alloc; "{queue} file {}, offset {offset}: {reason}", id.seq) {
        Ok(text) => Error::Corruption(text),
        Err(_) => Error::Memory,
    }
}

/// Returns an I/O error of the same kind as `error`, whose text has the queue, the file and the offset of a
/// batch before that of `error`.
///
/// # Errors
///
/// `AllocError` if there is no memory for the text.
fn io_error_with_place(
    alloc: Global,
    error: io::Error,
    id: FileId,
    offset: u64,
) -> AllocResult<io::Error>
    ensures kind { IfOk result (λ e. error_kind e ≡ error_kind error) }
{
    let queue = queue_name(id.queue);
    let text = format!(in alloc; "{queue} file {}, offset {offset}: {error}", id.seq)?;
    Ok(io::Error::new(error.kind(), text.as_str()))
}

/// Returns the name that `queue` has in texts: `append` or `rewrite`.
#[doc(hidden)]
pub fn queue_name(queue: LogQueue) -> &'static str
    ensures { result.now ≡ queue_text queue }
{
    match queue {
        LogQueue::Append => "append",
        LogQueue::Rewrite => "rewrite",
    }
}

/// States that the parts of segments can be read as one history at most. This is a law: it computes nothing.
pub fn segments_read_as_one_history()
    ensures { (segments : List (Vec Part Global)) (g h : List Event)
        → SegmentsHold segments g → SegmentsHold segments h → g ≡ h }
{}

/// States that a written batch is found where it was written. If its bytes come right after those of a part
/// of the file, at the place that they were written to, the longer part has that batch, with its places,
/// after the batches that it had. What else is asked holds of every batch whose bytes were made, as its
/// `is_read_again` states. This is a law: it computes nothing.
pub fn written_batches_are_held()
    ensures { WrittenBatchIsHeld }
{}

/// States that segments of fewer than 2^63 bytes together have a history with fewer than 2^63 entries, key
/// values and deletions of keys together, since batches don't name more of these than they have bytes. This
/// is a law: it computes nothing.
pub fn segments_hold_few_records()
    ensures { (segments : List (Vec Part Global)) (h : List Event)
        → SegmentsHold segments h → bytes_of_segments segments < 2 ^ 63 → IsSmall h }
{}
