//! Putting a batch after the bytes of a queue's last file.

ghost use Rattle.std.specs.Prelude.{◌≡◌, ◌≢◌, ◌≤◌, ◌^◌, true, [], ◌++◌, IfErr, OnOk, OnErr};
ghost use Rattle.raft_base.specs.Signature.{signature_of};
ghost use Rattle.raft_records.specs.LogBatch.{encoded, encoded_length, is_open, sealed};
ghost use Rattle.raft_files.specs.Asks.{IsAsked, MayBeAsked, Put, ask};
ghost use Rattle.raft_engine.specs.BatchBytes.{bytes_for, placed_at};
ghost use Rattle.raft_engine.specs.FileFailures.{FailsAmong};
ghost use Rattle.raft_engine.specs.Purged.{put_asks};
ghost use Rattle.raft_engine.specs.WrittenBatch.{synced_if};

use raft_base::{FileBlockHandle, LogFileContext, LogQueue, Result};
use raft_files::{AppendError, EngineFiles};
use raft_records::LogBatch;

/// Puts an encoded batch of `len` bytes after those of `file`, the last one of a queue, which ends at `offset`. The batch is
/// signed for the file before, and its items get their places there afterwards.
///
/// # Errors
///
/// Those of `EngineFiles::append`. Some of the bytes may be in the file then, and the items have no places.
pub fn put_batch<F: EngineFiles>(
    files: &mut F,
    file: &LogFileContext,
    offset: u64,
    batch: &mut LogBatch,
    len: usize,
) -> Result<()>
    requires encoded { batch.old.stage ≡ encoded }
    requires offset { offset ≤ 2 ^ 63 }
    requires len { len ≡ encoded_length batch.old.items batch.old.entry_bytes }
    ensures ok { OnOk result (IsAsked (ask file.now.id.queue (Put (bytes_for file.now batch.old)))
        (F.asked files.old) (F.asked files.new)) }
    ensures err { OnErr result (MayBeAsked (ask file.now.id.queue (Put (bytes_for file.now batch.old)))
        (F.asked files.old) (F.asked files.new)) }
    ensures fault { IfErr result (F.may_fail (F.asked files.old)
        (ask file.now.id.queue (Put (bytes_for file.now batch.old)))) }
    ensures placed { OnOk result (batch.new.items ≡ placed_at file.now.id offset batch.old) }
{
    let mut intact = true;
    try_put(files, file, offset, batch, len, &mut intact)
}

/// Puts a batch of `len` bytes, which are made, after those of `file`, as [`put_batch`] does. After an error `intact` says
/// whether the files are as if this hadn't been asked.
///
/// # Errors
///
/// Those of `EngineFiles::append`. The batch is signed for the file then, and its items have no places. If `intact` is set, what
/// was put of the bytes was taken back; else some of them may be in the file.
pub fn try_put<F: EngineFiles>(
    files: &mut F,
    file: &LogFileContext,
    offset: u64,
    batch: &mut LogBatch,
    len: usize,
    intact: &mut bool,
) -> Result<()>
    requires made { batch.old.stage ≢ is_open }
    requires offset { offset ≤ 2 ^ 63 }
    requires len { len ≡ encoded_length batch.old.items batch.old.entry_bytes }
    ensures ok { OnOk result (IsAsked (ask file.now.id.queue (Put (bytes_for file.now batch.old)))
        (F.asked files.old) (F.asked files.new)) }
    ensures err { OnErr result (MayBeAsked (ask file.now.id.queue (Put (bytes_for file.now batch.old)))
        (F.asked files.old) (F.asked files.new)) }
    ensures as_before { OnErr result (intact.new ≡ true → F.asked files.new ≡ F.asked files.old) }
    ensures signed { OnErr result (batch.new ≡ record batch.old { stage = sealed (signature_of file.now) }) }
    ensures fault { IfErr result (F.may_fail (F.asked files.old)
        (ask file.now.id.queue (Put (bytes_for file.now batch.old)))) }
    ensures placed { OnOk result (batch.new.items ≡ placed_at file.now.id offset batch.old) }
{
    batch.prepare_write(file);
    *intact = false;
    match files.append(file.id.queue, batch.encoded_bytes()) {
        Ok(()) => {}
        Err(AppendError::AsBefore(error)) => {
            *intact = true;
            return Err(error);
        }
        Err(AppendError::InPart(error)) => return Err(error),
    }
    batch.finish_write(FileBlockHandle {
        id: file.id,
        offset,
        len,
    });
    Ok(())
}

/// Puts an encoded batch of `len` bytes after those of `file`, the last one of a queue, which ends at `offset`, as [`try_put`]
/// does, if the batch has items. Without items it asks nothing.
///
/// # Errors
///
/// Those of `EngineFiles::append`. If `intact` is set, what was put of the bytes was taken back; else some of them may be in the
/// file.
pub fn put_unless_empty<F: EngineFiles>(
    files: &mut F,
    file: &LogFileContext,
    offset: u64,
    batch: &mut LogBatch,
    len: usize,
    intact: &mut bool,
) -> Result<()>
    requires encoded { batch.old.stage ≡ encoded }
    requires offset { offset ≤ 2 ^ 63 }
    requires len { len ≡ encoded_length batch.old.items batch.old.entry_bytes }
    ensures ok { OnOk result (F.asked files.new ≡ put_asks file.now batch.old ++ F.asked files.old) }
    ensures fault { IfErr result (FailsAmong F.may_fail (put_asks file.now batch.old)
        (F.asked files.old) (F.asked files.new)) }
    ensures some { OnErr result (batch.old.items ≢ []) }
    ensures as_before { OnErr result (intact.new ≡ true → F.asked files.new ≡ F.asked files.old) }
    ensures why { IfErr result (F.may_fail (F.asked files.old)
        (ask file.now.id.queue (Put (bytes_for file.now batch.old)))) }
{
    if batch.is_empty() {
        return Ok(());
    }
    try_put(files, file, offset, batch, len, intact)
}

/// Syncs the append queue if `sync` is set; else asks nothing.
///
/// # Errors
///
/// Those of `EngineFiles::sync`.
pub fn sync_append_if<F: EngineFiles>(files: &mut F, sync: bool) -> Result<()>
    ensures ok { OnOk result (F.asked files.new ≡ synced_if sync (F.asked files.old)) }
    ensures fault { IfErr result (FailsAmong F.may_fail (synced_if sync []) (F.asked files.old)
        (F.asked files.new)) }
{
    if sync {
        return files.sync(LogQueue::Append);
    }
    Ok(())
}
