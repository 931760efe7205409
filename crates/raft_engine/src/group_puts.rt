//! Putting the batches of an atomic group one after another.

ghost use Rattle.std.specs.Prelude.{◌≡◌, ◌≢◌, [], map, IfOk, IfErr, OnOk, OnErr};
ghost use Rattle.std.specs.List.{AllByRecursion};
ghost use Rattle.raft_records.specs.LogBatch.{Batch, is_open, encoded};
ghost use Rattle.raft_engine.specs.GroupBatches.{placed_from, puts_asks};
ghost use Rattle.raft_engine.specs.GroupPlaces.{AreFirstPut, BeginInTime, IsOneTooLong, as_encoded, end_from, items_of_batches};
ghost use Rattle.raft_engine.specs.FileFailures.{FailsAmong};
ghost use Rattle.raft_engine.specs.StoredAsks.{IsWritableBatch};

use crate::limits::LAST_OFFSET;
use crate::put::put_batch;
use raft_base::{Error, LogFileContext, Result};
use raft_files::EngineFiles;
use raft_records::LogBatch;

/// Makes the bytes of batches that will be put one after another, from `offset` of a file on. Returns the batches, encoded,
/// and the offset after the last one.
///
/// # Errors
///
/// `Full` if one would begin past 2^63, or has 2^56 bytes or more; `Memory`. The batches are gone then.
pub fn encode_batches(batches: Vec<LogBatch>, offset: u64) -> Result<(Vec<LogBatch>, u64)>
    requires opened { AllByRecursion (λ (b : Batch). b.stage ≡ is_open) batches.items }
    requires some { AllByRecursion (λ (b : Batch). b.items ≢ []) batches.items }
    ensures ok { IfOk result (λ made. made.0.items ≡ map as_encoded batches.items) }
    ensures end { IfOk result (λ made. made.1 ≡ end_from offset batches.items) }
    ensures writable { OnOk result (AllByRecursion IsWritableBatch batches.items) }
    ensures in_time { OnOk result (BeginInTime offset batches.items) }
    ensures refused { IfErr result (λ e. e ≢ Error.Memory
        → (e ≡ Error.Full) × IsOneTooLong offset batches.items) }
{
    let mut made = Vec::new(*batches.allocator());
    let mut end = offset;
    for batch in batches {
        if end > LAST_OFFSET {
            return Err(Error::Full);
        }
        let mut batch = batch;
        batch.is_read_again();
        end += batch.finish_populate()? as u64;
        made.push(batch)?;
    }
    Ok((made, end))
}

/// Puts encoded batches after the bytes of `file`, the last one of a queue, which ends at `offset`, one after another. Returns
/// them with the places of their items there.
///
/// # Errors
///
/// Those of `EngineFiles::append`: the first ones of the batches were put then, and all are gone.
pub fn put_batches<F: EngineFiles>(
    files: &mut F,
    file: &LogFileContext,
    offset: u64,
    batches: Vec<LogBatch>,
) -> Result<Vec<LogBatch>>
    requires encoded { AllByRecursion (λ (b : Batch). b.stage ≡ encoded) batches.items }
    requires in_time { BeginInTime offset batches.items }
    ensures ok { OnOk result (F.asked files.new
        ≡ puts_asks file.now batches.items (F.asked files.old)) }
    ensures placed { IfOk result (λ placed. items_of_batches placed.items
        ≡ placed_from file.now.id offset batches.items) }
    ensures err { OnErr result (AreFirstPut file.now batches.items (F.asked files.old)
        (F.asked files.new)) }
    ensures fault { IfErr result (FailsAmong F.may_fail (puts_asks file.now batches.items [])
        (F.asked files.old) (F.asked files.new)) }
{
    let mut placed = batches;
    let mut at = offset;
    for batch in placed.iter_mut() {
        batch.is_read_again();
        let len = batch.approximate_size();
        put_batch(files, file, at, batch, len)?;
        at += len as u64;
    }
    Ok(placed)
}
