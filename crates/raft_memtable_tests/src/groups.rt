//! Batches with group markers, and what tables have after them.

ghost use Rattle.std.specs.Prelude.{◌≡◌, OnOk};
ghost use Rattle.raft_records.specs.LogBatch.{is_open};

use crate::files::file_with_batch;
use AtomicGroupStatus::{Begin, Middle};
use raft_memtable::{FileId, LogQueue, MemTableAccessor, Result};
use raft_records::{AtomicGroupBuilder, AtomicGroupStatus, FilePart, LogBatch};
use std::alloc::Global;

/// The four keys, one of each batch.
pub(crate) const KEYS: [&[u8; 2]; 4] = [b"k1", b"k2", b"k3", b"k4"];

/// Returns a file of the rewrite queue.
pub(crate) fn rewrite_file(seq: u64) -> FileId {
    FileId::new(LogQueue::Rewrite, seq)
}

/// Adds a group marker of a group with a status to a batch.
///
/// # Errors
///
/// Those of the builder's calls. The batch is still open then.
pub(crate) fn add_marker(
    alloc: Global,
    group: u64,
    status: AtomicGroupStatus,
    batch: &mut LogBatch,
) -> Result<()>
    requires { batch.old.stage ≡ is_open }
    ensures { OnOk result (batch.new.stage ≡ is_open) }
{
    let mut builder = AtomicGroupBuilder::with_id(group);
    if status == Begin {
        return builder.begin(batch);
    }
    builder.begin(&mut LogBatch::default(alloc))?;
    match status {
        Middle => builder.add(batch),
        _ => builder.end(batch),
    }
}

/// Returns a part with a batch that has a group marker and puts a key of a region.
///
/// # Errors
///
/// Those of making the batch and its bytes; `Memory`.
pub(crate) fn part_with_marker(
    alloc: Global,
    group: u64,
    region: u64,
    status: AtomicGroupStatus,
    key: &[u8],
    seq: u64,
) -> Result<FilePart> {
    let mut batch = LogBatch::default(alloc);
    add_marker(alloc, group, status, &mut batch)?;
    batch.put(
        region,
        Vec::from_slice(alloc, key)?,
        Vec::from_slice(alloc, b"v".as_slice())?,
    )?;
    file_with_batch(alloc, rewrite_file(seq), batch)
}

/// Which of the four keys a region has, and the first and the last file of its last atomic group.
pub(crate) type Effect = ([bool; 4], Option<(u64, u64)>);

/// Returns which keys the table of a region has, and the files of its last group.
pub(crate) fn keys_and_group_of_region(accessor: &MemTableAccessor, region: u64) -> Effect {
    match accessor.get(region) {
        Some(table) => (
            KEYS.map(|key| table.get(key.as_slice()).is_some()),
            table.atomic_group(),
        ),
        None => ([false; 4], None),
    }
}
