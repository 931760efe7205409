//! Steps that are added to batches.

use raft_records::{
    AtomicGroupBuilder, AtomicGroupStatus, Command, EntryIndex, Error, FileBlockHandle, FileId,
    LogBatch, LogFileContext, Result, Version, is_consecutive,
};
use raft_samples::{Proposal, Proposals, proposals_from};
use std::alloc::Global;

/// What is added to a batch. The first number is the region, or the group of a marker.
#[derive(Clone, Copy)]
pub(crate) enum Step {
    /// An entry for each text, with the indexes from the second number on.
    Entries(u64, u64, &'static [&'static str]),
    /// An entry for each string of bytes, which are encoded already, with the indexes from the second number
    /// on.
    Raw(u64, u64, &'static [&'static [u8]]),
    /// Entries of one byte, with the indexes from the second number on and below the third.
    Run(u64, u64, u64),
    /// A command that cleans the region.
    Clean(u64),
    /// A compaction to an index.
    Compact(u64, u64),
    /// A truncation at an index.
    Truncate(u64, u64),
    /// A put of a key and a value.
    Put(u64, &'static [u8], &'static [u8]),
    /// A put of a key and a value that is a message with this text.
    PutMessage(u64, &'static [u8], &'static [u8]),
    /// A deletion of a key.
    Delete(u64, &'static [u8]),
    /// A group marker.
    Marker(u64, AtomicGroupStatus),
}

/// Adds `step` to `batch`, which must be open.
///
/// # Errors
///
/// `Failed` for a batch that isn't open; those of the batch's call.
pub(crate) fn add_step(alloc: Global, batch: &mut LogBatch, step: Step) -> Result<()> {
    if !batch.is_open() {
        return Err(Error::Failed);
    }
    match step {
        Step::Entries(region, first, texts) => {
            let proposals = proposals_from(alloc, first, texts)?;
            batch.add_entries::<Proposals>(region, proposals.as_slice())
        }
        Step::Raw(region, first, texts) => add_run_of_texts(alloc, batch, region, first, texts),
        Step::Run(region, start, end) => add_run(alloc, batch, region, start, end),
        Step::Clean(region) => batch.add_command(region, Command::Clean),
        Step::Compact(region, index) => batch.add_command(region, Command::Compact { index }),
        Step::Truncate(region, index) => batch.add_command(region, Command::Truncate { index }),
        Step::Put(region, key, value) => put_value(alloc, batch, region, key, value),
        Step::PutMessage(region, key, text) => {
            let value = proposal_with_text(alloc, text)?;
            batch.put_message(region, Vec::from_slice(alloc, key)?, &value)
        }
        Step::Delete(region, key) => batch.delete(region, Vec::from_slice(alloc, key)?),
        Step::Marker(group, status) => add_marker(alloc, batch, group, status),
    }
}

/// Returns a proposal with this `text`, and index 0.
///
/// # Errors
///
/// `Memory` alone.
pub(crate) fn proposal_with_text(alloc: Global, text: &[u8]) -> Result<Proposal> {
    let text = Vec::from_slice(alloc, text)?;
    Ok(Proposal { index: 0, text })
}

/// Adds a put of `value` under `key` of `region` to `batch`, which must be open.
///
/// # Errors
///
/// `Failed` for a batch that isn't open; those of [`LogBatch::put`].
fn put_value(
    alloc: Global,
    batch: &mut LogBatch,
    region: u64,
    key: &[u8],
    value: &[u8],
) -> Result<()> {
    if !batch.is_open() {
        return Err(Error::Failed);
    }
    let value = Vec::from_slice(alloc, value)?;
    batch.put(region, Vec::from_slice(alloc, key)?, value)
}

/// Adds an item with an entry of one byte for each of the indexes `start..end` of `region` to `batch`, which
/// must be open.
///
/// # Errors
///
/// `Failed` for a batch that isn't open; those of [`LogBatch::add_entries`].
fn add_run(alloc: Global, batch: &mut LogBatch, region: u64, start: u64, end: u64) -> Result<()> {
    let mut proposals = Vec::new(alloc);
    for index in start..end {
        let text = Vec::from_slice(alloc, b"x")?;
        proposals.push(Proposal { index, text })?;
    }
    if !batch.is_open() {
        return Err(Error::Failed);
    }
    batch.add_entries::<Proposals>(region, proposals.as_slice())
}

/// Adds an item with entries of `region`, whose bytes are `texts` and whose indexes rise from `first` on, to
/// `batch`, which must be open.
///
/// # Errors
///
/// `Failed` for a batch that isn't open, and for an index above 2^64 - 2; those of
/// [`LogBatch::add_raw_entries`].
fn add_run_of_texts(
    alloc: Global,
    batch: &mut LogBatch,
    region: u64,
    first: u64,
    texts: &[&[u8]],
) -> Result<()> {
    let mut indexes = Vec::new(alloc);
    let mut entries = Vec::new(alloc);
    for text in texts {
        indexes.push(EntryIndex {
            index: first.saturating_add(entries.len() as u64),
            ..EntryIndex::default()
        })?;
        entries.push(Vec::from_slice(alloc, text)?)?;
    }
    if !batch.is_open() || indexes.len() != entries.len() || !is_consecutive(&indexes) {
        return Err(Error::Failed);
    }
    batch.add_raw_entries(region, indexes, entries)
}

/// Adds a marker with this `status` of the group numbered `group` to `batch`, which must be open.
///
/// # Errors
///
/// `Failed` for a batch that isn't open; `Memory`.
fn add_marker(
    alloc: Global,
    batch: &mut LogBatch,
    group: u64,
    status: AtomicGroupStatus,
) -> Result<()> {
    let mut builder = AtomicGroupBuilder::with_id(group);
    if !batch.is_open() {
        return Err(Error::Failed);
    }
    if status == AtomicGroupStatus::Begin {
        return builder.begin(batch);
    }
    builder.begin(&mut LogBatch::default(alloc))?;
    match status {
        AtomicGroupStatus::Middle => builder.add(batch),
        _ => builder.end(batch),
    }
}

/// Returns an open batch with `steps`.
///
/// # Errors
///
/// Those of [`add_step`].
pub(crate) fn batch_with_steps(alloc: Global, steps: &[Step]) -> Result<LogBatch> {
    let mut batch = LogBatch::default(alloc);
    for step in steps {
        add_step(alloc, &mut batch, *step)?;
    }
    Ok(batch)
}

/// Returns a batch with `steps` whose bytes are made, and signed for `file` in version 1.
///
/// # Errors
///
/// Those of [`add_step`] and [`LogBatch::finish_populate`].
pub(crate) fn sealed_batch(alloc: Global, file: FileId, steps: &[Step]) -> Result<LogBatch> {
    let mut batch = batch_with_steps(alloc, steps)?;
    if !batch.is_open() {
        return Err(Error::Failed);
    }
    batch.finish_populate()?;
    batch.prepare_write(&LogFileContext::new(file, Version::V1));
    Ok(batch)
}

/// Returns a batch with `step` alone, whose items have the places that they get when it is written to the
/// start of `file`.
///
/// # Errors
///
/// Those of [`sealed_batch`].
pub(crate) fn written_batch(alloc: Global, file: FileId, step: Step) -> Result<LogBatch> {
    let mut batch = sealed_batch(alloc, file, &[step])?;
    if !batch.is_sealed() {
        return Err(Error::Failed);
    }
    let len = batch.encoded_bytes().len();
    batch.finish_write(FileBlockHandle {
        id: file,
        offset: 0,
        len,
    });
    Ok(batch)
}
