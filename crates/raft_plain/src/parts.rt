//! Reads parts of files, one after the other.

ghost use Rattle.std.specs.Prelude.{◌≡◌, ◌≢◌, ◌+◌, ◌≤◌, ◌↔◌, List, IsTrue, IfOk, IfErr, OnOk, OnErr};
ghost use Rattle.raft_plain.specs.Common.{ArePartsOf, HasReplayed, CannotFollow, HasRead, HoldsFrom, EachHolds, IsInvalidArgument, IsPlaced, StopsIn, StopsAmong, IsNothing, Sound, IsReadOf};

use crate::Reading;
use crate::batches::apply_batch;
use raft_base::{Error, FileId, LogQueue, Result};
use raft_records::{FilePart, next_batch};
use raft_replay::segment::corruption_at;
use std::alloc::Global;

/// Checks that all of `parts` are of files of `queue`.
///
/// # Errors
///
/// `InvalidArgument` if one isn't; `Memory` if there is none for the text.
pub(crate) fn check_parts(alloc: Global, queue: LogQueue, parts: &[FilePart]) -> Result<()>
    ensures ok { OnOk result (ArePartsOf queue parts.entry.now) }
    ensures err { OnErr result (¬ (ArePartsOf queue parts.entry.now)) }
    ensures fault { IfErr result (λ e. e ≢ Error.Memory → IsInvalidArgument e) }
{
    if are_parts_of_queue(queue, parts) {
        return Ok(());
    }
    Err(Error::invalid_argument(alloc, "a part of another queue"))
}

/// Tests whether all of `parts` are of files of `queue`.
fn are_parts_of_queue(queue: LogQueue, parts: &[FilePart]) -> bool
    ensures { IsTrue result ↔ ArePartsOf queue parts.now }
{
    parts.iter().all(|part| part.id().queue == queue)
}

/// Reads the batches of all `parts`, which must be of files of `queue`, in order. Returns what they give.
///
/// # Errors
///
/// `Memory`. Any other comes only if a part isn't a sequence of readable batches, or the batches in order
/// can't be read; a `Corruption` names the file and the offset of the batch that was refused.
pub fn read_parts(alloc: Global, queue: LogQueue, parts: &[FilePart]) -> Result<Reading>
    requires { ArePartsOf queue parts.now }
    ensures ok { IfOk result (IsReadOf queue (EachHolds (λ part. HoldsFrom part 0) parts.entry.now)) }
    ensures place { IfErr result (λ e. e ≢ Error.Memory → StopsAmong IsNothing Sound parts.entry.now e) }
    ensures refused { IfErr result (λ e. e ≢ Error.Memory
        → CannotFollow (EachHolds (λ part. HoldsFrom part 0) parts.entry.now) IsNothing) }
{
    let mut reading = Reading::new(alloc);
    for part in parts {
        reading = apply_part(alloc, queue, reading, part)?;
    }
    Ok(reading)
}

/// Returns what `reading` and then the batches of `part` give, which is of a file of `queue`.
///
/// # Errors
///
/// Those of [`read_parts`].
fn apply_part(
    alloc: Global,
    queue: LogQueue,
    mut reading: Reading,
    part: &FilePart,
) -> Result<Reading>
    requires { part.now.id.queue ≡ queue }
    ensures ok { IfOk result (HasReplayed (HoldsFrom part.now 0) (HasRead queue)
        (HasRead queue) reading) }
    ensures place { IfErr result (StopsIn (HasRead queue reading) Sound part.now) }
{
    let mut at = 0;
    loop {
        match next_batch(part, at) {
            Ok(Some((batch, next))) => {
                match apply_batch(alloc, queue, reading, batch, part.id()) {
                    Ok(read) => reading = read,
                    Err(error) => {
                        return Err(error_with_place(
                            alloc,
                            error,
                            part.id(),
                            part.offset() + at as u64,
                        ));
                    }
                }
                at = next;
            }
            Ok(None) => return Ok(reading),
            Err(error) => {
                return Err(error_with_place(alloc, error, part.id(), part.offset() + at as u64));
            }
        }
    }
}

/// Returns `error` with the queue, the file and the offset of a batch before its text if it is a
/// `Corruption`, as `append file 3, offset 1024: `. Other errors are returned as they are. Returns `Memory`
/// if there is none for the text.
fn error_with_place(alloc: Global, error: Error, id: FileId, offset: u64) -> Error
    ensures placed { IsPlaced id offset result }
    ensures memory { result ≢ Error.Memory → error ≢ Error.Memory }
{
    match error {
        Error::Corruption(reason) => corruption_at(alloc, id, offset, reason.as_str()),
        kept => kept,
    }
}
