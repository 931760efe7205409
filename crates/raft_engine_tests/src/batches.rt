//! The batches that histories and engines write.

ghost use Rattle.std.specs.Prelude.{◌≡◌, IfOk, OnOk};
ghost use Rattle.raft_records.specs.LogBatch.{is_open};

use raft_base::{EntryIndex, FileId, LogFileContext, Version, is_consecutive};
use raft_records::{AtomicGroupBuilder, AtomicGroupStatus, Command, Error, LogBatch, Result};
use raft_samples::{Proposal, Proposals};
use std::alloc::Global;

/// The region of all histories.
pub const REGION: u64 = 1;

/// An item of a batch of [`REGION`].
#[derive(Clone, Copy)]
pub enum Part {
    /// Entries of one byte each, from the first index on and below the second.
    Entries(u64, u64),
    /// Entries of 1,500 bytes each, from the first index on and below the second.
    Medium(u64, u64),
    /// Entries of 3 KiB each, from the first index on and below the second.
    Large(u64, u64),
    /// This value for the key `k`.
    Put(&'static str),
    /// The deletion of the key `k`.
    Delete,
    /// The command that drops the entries below this index.
    Compact(u64),
    /// The command that drops the entries from this index on.
    Truncate(u64),
    /// The command that drops all records of the region.
    Clean,
    /// The marker that begins the group with this number.
    Begin(u64),
    /// The marker that goes on with this group.
    Middle(u64),
    /// The marker that ends this group.
    End(u64),
}

/// The bytes of each medium entry.
static MEDIUM: [u8; 1_500] = [b'x'; 1_500];

/// The bytes of each large entry.
static LARGE: [u8; 3_072] = [b'x'; 3_072];

/// Returns an open batch with one entry of `region`, which has these bytes.
///
/// # Errors
///
/// Those of [`LogBatch::add_raw_entries`]; `Memory`.
pub fn batch_with_entry(alloc: Global, region: u64, index: u64, bytes: Vec<u8>) -> Result<LogBatch>
    ensures { IfOk result (λ batch. batch.stage ≡ is_open) }
{
    let bytes = vec![in alloc; bytes]?;
    let entry = EntryIndex {
        index,
        ..EntryIndex::default()
    };
    let entries = vec![in alloc; entry]?;
    if !is_consecutive(&entries) {
        return Err(Error::Failed);
    }
    let mut batch = LogBatch::default(alloc);
    batch.add_raw_entries(region, entries, bytes)?;
    Ok(batch)
}

/// Returns the bytes of a batch, signed for `file`.
///
/// # Errors
///
/// `Failed` if the batch isn't open; those of [`LogBatch::finish_populate`]; `Memory`.
pub fn bytes_signed_for(alloc: Global, mut batch: LogBatch, file: FileId) -> Result<Vec<u8>> {
    if !batch.is_open() {
        return Err(Error::Failed);
    }
    batch.finish_populate()?;
    batch.prepare_write(&LogFileContext::new(file, Version::V2));
    Ok(Vec::from_slice(alloc, batch.encoded_bytes())?)
}

/// Returns an open batch of these items, in order.
///
/// # Errors
///
/// That of the first part that the batch refuses; `Memory`.
pub fn batch_of_parts(alloc: Global, parts: &[Part]) -> Result<LogBatch>
    ensures { IfOk result (λ batch. batch.stage ≡ is_open) }
{
    let mut batch = LogBatch::default(alloc);
    for part in parts {
        add_part(alloc, &mut batch, *part)?;
    }
    Ok(batch)
}

/// Adds what `part` stands for to `batch`, which must be open.
///
/// # Errors
///
/// Those of the batch's call. The batch is still open then.
fn add_part(alloc: Global, batch: &mut LogBatch, part: Part) -> Result<()>
    requires { batch.old.stage ≡ is_open }
    ensures { OnOk result (batch.new.stage ≡ is_open) }
{
    match part {
        Part::Entries(first, end) => {
            let entries = proposals_between(alloc, first, end, b"x")?;
            batch.add_entries::<Proposals>(REGION, entries.as_slice())
        }
        Part::Medium(first, end) => {
            let entries = proposals_between(alloc, first, end, &MEDIUM)?;
            batch.add_entries::<Proposals>(REGION, entries.as_slice())
        }
        Part::Large(first, end) => {
            let entries = proposals_between(alloc, first, end, &LARGE)?;
            batch.add_entries::<Proposals>(REGION, entries.as_slice())
        }
        Part::Put(value) => {
            let value = Vec::from_slice(alloc, value.as_bytes())?;
            batch.put(REGION, Vec::from_slice(alloc, b"k")?, value)
        }
        Part::Delete => batch.delete(REGION, Vec::from_slice(alloc, b"k")?),
        Part::Compact(index) => batch.add_command(REGION, Command::Compact { index }),
        Part::Truncate(index) => batch.add_command(REGION, Command::Truncate { index }),
        Part::Clean => batch.add_command(REGION, Command::Clean),
        Part::Begin(id) => add_marker(alloc, batch, id, AtomicGroupStatus::Begin),
        Part::Middle(id) => add_marker(alloc, batch, id, AtomicGroupStatus::Middle),
        Part::End(id) => add_marker(alloc, batch, id, AtomicGroupStatus::End),
    }
}

/// Returns an entry with these bytes for each of the indexes `first..end`.
///
/// # Errors
///
/// `Memory` alone.
fn proposals_between(alloc: Global, first: u64, end: u64, bytes: &[u8]) -> Result<Vec<Proposal>> {
    let mut entries = Vec::new(alloc);
    for index in first..end {
        let text = Vec::from_slice(alloc, bytes)?;
        entries.push(Proposal { index, text })?;
    }
    Ok(entries)
}

/// Adds to `batch` the marker of group `id` with this status. For a Middle or an End, the group is begun in another batch
/// before, which is dropped.
///
/// # Errors
///
/// Those of the builder's calls. The batch is still open then.
fn add_marker(alloc: Global, batch: &mut LogBatch, id: u64, status: AtomicGroupStatus) -> Result<()>
    requires { batch.old.stage ≡ is_open }
    ensures { OnOk result (batch.new.stage ≡ is_open) }
{
    let mut group = AtomicGroupBuilder::with_id(id);
    if status == AtomicGroupStatus::Begin {
        return group.begin(batch);
    }
    group.begin(&mut LogBatch::default(alloc))?;
    match status {
        AtomicGroupStatus::Middle => group.add(batch),
        _ => group.end(batch),
    }
}
