//! Files of one batch, and their replay.

ghost use Rattle.std.specs.Prelude.{◌≡◌};
ghost use Rattle.raft_records.specs.LogBatch.{is_open};

use raft_memtable::{FileId, MemTableRecoverContext, Result};
use raft_records::{FilePart, LogBatch, LogFileContext, ReadBatch, Version, next_batch};
use std::alloc::Global;

/// Makes the bytes of a batch, and returns them as the only ones of a file.
///
/// # Errors
///
/// Those of [`LogBatch::finish_populate`]; `Memory`.
pub(crate) fn file_with_batch(alloc: Global, file: FileId, mut batch: LogBatch) -> Result<FilePart>
    requires { batch.stage ≡ is_open }
{
    batch.finish_populate()?;
    batch.prepare_write(&LogFileContext::new(file, Version::V1));
    let bytes = Vec::from_slice(alloc, batch.encoded_bytes())?;
    FilePart::new(file, Version::V1, 0, bytes)
}

/// Replays the batch of a file.
///
/// # Errors
///
/// Those of reading the batch, and of [`MemTableRecoverContext::replay`].
pub(crate) fn replay_file(context: &mut MemTableRecoverContext, file: &FilePart) -> Result<()> {
    if let Some((batch, _)) = next_batch(file, 0)? {
        context.replay(batch, file.id())?;
    }
    Ok(())
}

/// Returns a context that has replayed the batches of these files.
///
/// # Errors
///
/// Those of [`replay_file`]; `Memory`.
pub(crate) fn context_of_files(
    alloc: Global,
    files: &[FilePart],
) -> Result<MemTableRecoverContext> {
    let mut context = MemTableRecoverContext::new(alloc)?;
    for file in files {
        replay_file(&mut context, file)?;
    }
    Ok(context)
}

/// Reads the batch of a file, and replays it, without a copy of its items, as one of the file `id`.
///
/// # Errors
///
/// Those of [`ReadBatch::read_next`] and [`MemTableRecoverContext::replay_read`].
pub(crate) fn replay_without_copy(
    context: &mut MemTableRecoverContext,
    file: &FilePart,
    id: FileId,
) -> Result<()> {
    let own = LogFileContext::new(file.id(), file.version());
    let mut batch = ReadBatch::new(file.allocator(), file.id());
    batch.read_next(&own, file.offset(), file.bytes(), 0)?;
    context.replay_read(&batch, id)
}
