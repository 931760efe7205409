//! Batches that are filled, merged, marked as a group, made into bytes and signed.

use crate::calls::Call;
use crate::found::{Found, call_twice, is_lack_of_memory};
use crate::steps::{Step, add_step, batch_with_steps};
use raft_records::{
    AtomicGroupBuilder, AtomicGroupStatus, Error, FileId, FileSeq, LogBatch, LogFileContext,
    LogQueue, Result, Version,
};

/// The calls of the row `batches`: steps, and the version and the number of the append file for which the
/// batch is signed.
pub(crate) static BATCHES: [Call; 6] = [
    Call::Batch(&[Step::Clean(1)], Version::V1, 12),
    Call::Batch(&[Step::Clean(1)], Version::V2, 12),
    Call::Batch(&[], Version::V1, 12),
    Call::Batch(&[Step::Entries(7, 10, &["ab", "c"])], Version::V1, 12),
    Call::Batch(
        &[Step::Put(1, b"put", b"put_v"), Step::Delete(1, b"")],
        Version::V1,
        12,
    ),
    Call::Batch(
        &[
            Step::Run(7, 1, 40),
            Step::Compact(300, 300),
            Step::Truncate(1, 7),
            Step::PutMessage(2, b"k", b"line"),
            Step::Raw(8, 5, &[b"ab", b"", b"c"]),
        ],
        Version::V2,
        2001,
    ),
];

/// Makes a batch of `steps`, signs it for the append file numbered `seq` of this `version`, and adds lines
/// with its approximate size, its length and its bytes. Notes in `found` whether each call that returns
/// `Memory` has left what it must leave.
///
/// # Errors
///
/// That of the first call that fails, also when it is tried again.
pub(crate) fn encode_steps(
    found: &mut Found,
    steps: &[Step],
    version: Version,
    seq: FileSeq,
) -> Result<()> {
    let file = LogFileContext::new(FileId::new(LogQueue::Append, seq), version);
    let mut batch = LogBatch::default(found.alloc);
    for step in steps {
        add_and_retry(found, &mut batch, *step)?;
    }
    seal_and_retry(found, &mut batch, &file)
}

/// Adds `step` to `batch`. If that returns `Memory`, notes in `found` whether the batch is unchanged, and
/// tries once more.
///
/// # Errors
///
/// Those of [`add_step`]; `Memory` also if there is none for a copy of the batch.
fn add_and_retry(found: &mut Found, batch: &mut LogBatch, step: Step) -> Result<()> {
    let before = batch.clone()?;
    call_twice!(found; add_step(found.alloc, batch, step); *batch == before)
}

/// Makes the bytes of `batch`, signs them for `file`, and adds lines with its approximate size, its length
/// and its bytes, in hexadecimal digits. If making them returns `Memory`, notes in `found` whether the batch
/// is unchanged, and tries once more.
///
/// # Errors
///
/// Those of [`finish_batch`]; `Memory`.
fn seal_and_retry(found: &mut Found, batch: &mut LogBatch, file: &LogFileContext) -> Result<()> {
    let before = batch.clone()?;
    let size = batch.approximate_size();
    let len = call_twice!(found; finish_batch(batch); *batch == before)?;
    let alloc = found.alloc;
    found.append_line(format!(in alloc; "size {size} length {len}")?.as_str())?;
    if batch.is_open() {
        return Err(Error::Failed);
    }
    batch.prepare_write(file);
    found.append_hex_line(batch.encoded_bytes())
}

/// Makes the bytes of `batch`, which must be open, by [`LogBatch::finish_populate`]. Returns how many they
/// are.
///
/// # Errors
///
/// `Failed` for a batch that isn't open; those of [`LogBatch::finish_populate`].
fn finish_batch(batch: &mut LogBatch) -> Result<usize> {
    if !batch.is_open() {
        return Err(Error::Failed);
    }
    batch.finish_populate()
}

/// Merges a batch with entries into another one, and adds lines with the bytes of both.
///
/// # Errors
///
/// That of the first call that fails.
pub(crate) fn merge_two_batches(found: &mut Found) -> Result<()> {
    let mut batch = batch_with_steps(found.alloc, &[Step::Run(7, 1, 3), Step::Clean(2)])?;
    let mut behind = batch_with_steps(
        found.alloc,
        &[Step::Run(8, 1, 30), Step::Put(3, b"k", b"v")],
    )?;
    merge_batch_behind(found, &mut batch, &mut behind)?;
    let file = LogFileContext::new(FileId::new(LogQueue::Append, 12), Version::V1);
    seal_and_retry(found, &mut batch, &file)?;
    seal_and_retry(found, &mut behind, &file)
}

/// Moves the items of `behind` to the end of `batch`. If that returns `Memory`, notes in `found` whether both
/// are unchanged.
///
/// # Errors
///
/// `Failed` if one of them isn't open; those of [`LogBatch::merge`].
fn merge_batch_behind(
    found: &mut Found,
    batch: &mut LogBatch,
    behind: &mut LogBatch,
) -> Result<()> {
    let before = batch.clone()?;
    let behind_before = behind.clone()?;
    if !batch.is_open() || !behind.is_open() {
        return Err(Error::Failed);
    }
    let answer = batch.merge(behind);
    found.note_what_refusal_left(
        !is_lack_of_memory(&answer) || *batch == before && *behind == behind_before,
    );
    answer
}

/// Adds lines with the bytes of three batches: with the `Begin`, a `Middle` and the `End` of a group.
///
/// # Errors
///
/// That of the first call that fails.
pub(crate) fn print_group_batches(found: &mut Found) -> Result<()> {
    let mut builder = AtomicGroupBuilder::with_id(9);
    for _ in 0..3 {
        let mut batch = LogBatch::default(found.alloc);
        add_next_marker(found, &mut builder, &mut batch)?;
        let file = LogFileContext::new(FileId::new(LogQueue::Rewrite, 1), Version::V1);
        seal_and_retry(found, &mut batch, &file)?;
    }
    Ok(())
}

/// Adds the next marker of the group of `builder` to `batch`: its `Begin`, then a `Middle`, then its `End`.
/// If that returns `Memory`, notes in `found` whether batch and builder are unchanged.
///
/// # Errors
///
/// `Failed` for a batch that isn't open, and for a group that has ended; `Memory`.
fn add_next_marker(
    found: &mut Found,
    builder: &mut AtomicGroupBuilder,
    batch: &mut LogBatch,
) -> Result<()> {
    let before = batch.clone()?;
    let state = builder.state();
    if !batch.is_open() {
        return Err(Error::Failed);
    }
    let answer = match builder.state() {
        None => builder.begin(batch),
        Some(AtomicGroupStatus::Begin) => builder.add(batch),
        Some(AtomicGroupStatus::Middle) => builder.end(batch),
        Some(AtomicGroupStatus::End) => Err(Error::Failed),
    };
    found.note_what_refusal_left(
        !is_lack_of_memory(&answer) || *batch == before && builder.state() == state,
    );
    answer
}
