//! The batches of the last append file whose entries are damaged, which an opening names. An entry block is damaged if its
//! checksum doesn't hold.

ghost use Rattle.std.specs.Prelude.{◌≡◌, ℕ, ◌+◌, List, IfErr, IfOk, OnOk};
ghost use Rattle.std.specs.Thread.{IsSync};
ghost use Rattle.raft_records.specs.FilePart.{IsBatchAt};
ghost use Rattle.raft_records.specs.Item.{Item};
ghost use Rattle.raft_engine.specs.CutTails.{IsTornAs};
ghost use Rattle.raft_engine.specs.DamagedBatches.{AreDamagedBatches, IsDamagedBatch};
ghost use Rattle.raft_engine.specs.DamagedStretches.{AreDamagedBetween, AreReached, IsGathered, IsReachedAt};
ghost use Rattle.raft_engine.specs.SoundBlocks.{IsUnsoundAt};

use crate::blocks::{DAMAGED_ENTRIES, HEADER_LEN, end_of_batches};
use crate::found::unless_memory;
use crate::queue_reading::LEAST_SHARE;
use crate::recovered::{CutTail, DamagedBatch};
use raft_base::{Error, Result};
use raft_records::{FilePart, LogBatch, lent_entry_block};
use raft_replay::segment::corruption_at;
use std::thread::{Threads, join};

/// Returns the batches of `file` before `tail` whose entries are damaged, in order. Each entry block is read once, by one of
/// `workers` threads; items of batches aren't read.
///
/// # Errors
///
/// `Memory` alone.
pub fn damaged_batches<R: Threads + Sync>(
    rt: &R,
    file: &FilePart,
    tail: &Option<CutTail>,
    workers: usize,
) -> Result<Vec<DamagedBatch>>
    requires { IsTornAs file.now tail.now }
    ensures ok { IfOk result (λ damaged. AreDamagedBatches file.now damaged.items) }
    ensures memory { IfErr result (λ e. e ≡ Error.Memory) }
{
    gather_at_once(rt, file, 0, end_of_batches(file, tail), workers)
}

/// Returns the batches of `file` before `tail` whose entries are damaged, in order, as [`damaged_batches`] does, but on the
/// caller's thread.
///
/// # Errors
///
/// `Memory` alone.
pub fn damaged_batches_alone(file: &FilePart, tail: &Option<CutTail>) -> Result<Vec<DamagedBatch>>
    requires { IsTornAs file.now tail.now }
    ensures ok { IfOk result (λ damaged. AreDamagedBatches file.now damaged.items) }
    ensures memory { IfErr result (λ e. e ≡ Error.Memory) }
{
    gather_damaged(file, 0, end_of_batches(file, tail))
}

/// Returns the batches with damaged entries between the positions `from` and `end` of a file, in order. A long stretch is
/// halved, and each half given to half of the `workers` threads.
///
/// # Errors
///
/// `Memory` alone.
fn gather_at_once<R: Threads + Sync>(
    rt: &R,
    file: &FilePart,
    from: usize,
    end: usize,
    workers: usize,
) -> Result<Vec<DamagedBatch>>
    requires { AreReached file.now from end }
    ensures ok { IfOk result (λ damaged. AreDamagedBetween file.entry.now from end damaged.items) }
    ensures memory { IfErr result (λ e. e ≡ Error.Memory) }
{
    if workers < 2 || end - from < LEAST_SHARE {
        return gather_damaged(file, from, end);
    }
    let middle = batch_end_past_middle(file, from, end)?;
    let first_half = workers / 2;
    let second_half = workers - first_half;
    let front = || -> Result<Vec<DamagedBatch>>
        requires { IsSync R.row × AreReached file.now from middle }
        ensures ok { IfOk result (λ damaged. AreDamagedBetween file.entry.now from middle damaged.items) }
        ensures memory { IfErr result (λ e. e ≡ Error.Memory) }
    { gather_at_once(rt, file, from, middle, first_half) };
    let back = || -> Result<Vec<DamagedBatch>>
        requires { IsSync R.row × AreReached file.now middle end }
        ensures ok { IfOk result (λ damaged. AreDamagedBetween file.entry.now middle end damaged.items) }
        ensures memory { IfErr result (λ e. e ≡ Error.Memory) }
    { gather_at_once(rt, file, middle, end, second_half) };
    let (first, second) = join(rt, front, back);
    let mut damaged = first?;
    let mut behind = second?;
    damaged.append(&mut behind)?;
    Ok(damaged)
}

/// Returns the first position at or after the middle between `from` and `end` at which a batch ends. A batch begins at `from`.
///
/// # Errors
///
/// `Memory` alone.
fn batch_end_past_middle(file: &FilePart, from: usize, end: usize) -> Result<usize>
    requires { AreReached file.now from end }
    ensures ok { IfOk result (λ middle. AreReached file.now from middle × AreReached file.now middle end) }
    ensures memory { IfErr result (λ e. e ≡ Error.Memory) }
{
    let half = from + (end - from) / 2;
    let mut at = from;
    while at < half {
        at = end_of_batch(file, at)?;
    }
    Ok(at)
}

/// Returns the position at which the batch ends that stands at position `at` of a file.
///
/// # Errors
///
/// `Memory` alone.
fn end_of_batch(file: &FilePart, at: usize) -> Result<usize>
    requires { (items : List Item) × (next : ℕ) × IsBatchAt file.now at items next }
    ensures ok { IfOk result (λ end. (items : List Item) (next : ℕ) → IsBatchAt file.now at items next → end ≡ next) }
    ensures memory { IfErr result (λ e. e ≡ Error.Memory) }
{
    let (_, mut batch) = file.bytes().split_at(at);
    let (_, _, len) = LogBatch::decode_header(file.allocator(), &mut batch)?;
    Ok(at + len)
}

/// Returns the batches with damaged entries between the positions `from` and `end` of a file, in order, on the caller's
/// thread.
///
/// # Errors
///
/// `Memory` alone.
fn gather_damaged(file: &FilePart, from: usize, end: usize) -> Result<Vec<DamagedBatch>>
    requires { AreReached file.now from end }
    ensures ok { IfOk result (λ damaged. AreDamagedBetween file.now from end damaged.items) }
    ensures memory { IfErr result (λ e. e ≡ Error.Memory) }
{
    let mut damaged = Vec::new(file.allocator());
    let mut at = from;
    while at < end {
        at = gather_if_damaged(file, at, &mut damaged)?;
    }
    Ok(damaged)
}

/// Checks the entry block of the batch at position `at` of a file, and adds the batch to `damaged` if its entries are damaged.
/// Returns the position at which the batch ends.
///
/// # Errors
///
/// `Memory` alone. Nothing is added then.
fn gather_if_damaged(file: &FilePart, at: usize, damaged: &mut Vec<DamagedBatch>) -> Result<usize>
    requires { IsReachedAt file.now at }
    ensures ok { IfOk result (λ end. (items : List Item) (next : ℕ) → IsBatchAt file.now at items next → end ≡ next) }
    ensures gathered { OnOk result (IsGathered file.now at damaged.old.items damaged.new.items) }
    ensures memory { IfErr result (λ e. e ≡ Error.Memory) }
{
    let alloc = file.allocator();
    let (_, mut batch) = file.bytes().split_at(at);
    let (items_at, _, len) = LogBatch::decode_header(alloc, &mut batch)?;
    let Ok(_) = lent_entry_block(alloc, batch, items_at - HEADER_LEN) else {
        damaged.push(damaged_batch(file, at)?)?;
        return Ok(at + len);
    };
    Ok(at + len)
}

/// Returns the batch at position `at` of a file as one with damaged entries, with the error with which they are refused.
///
/// # Errors
///
/// `Memory` alone.
fn damaged_batch(file: &FilePart, at: usize) -> Result<DamagedBatch>
    requires { IsUnsoundAt file.now at }
    ensures ok { IfOk result (IsDamagedBatch file.now) }
    ensures offset { IfOk result (λ batch. batch.offset ≡ file.now.offset + at) }
    ensures memory { IfErr result (λ e. e ≡ Error.Memory) }
{
    let offset = file.offset() + at as u64;
    let error = corruption_at(file.allocator(), file.id(), offset, DAMAGED_ENTRIES);
    unless_memory(&error)?;
    Ok(DamagedBatch {
        file: file.id().seq,
        offset,
        error,
    })
}
