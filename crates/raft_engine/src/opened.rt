//! What is asked of found files once they are read.

ghost use Rattle.std.specs.Prelude.{◌≡◌, ◌++◌, IfErr, OnOk};
ghost use Rattle.raft_engine.specs.OpeningAsks.{FailsAmong, asks_that_tell};
ghost use Rattle.raft_engine.specs.ReadFound.{IsToBeTold, reading_asks};

use crate::put::put_batch;
use crate::reading::Reading;
use raft_base::{FileId, LogFileContext, LogQueue, Result, Version};
use raft_files::EngineFiles;

/// Asks what a reading of found files says is missing: first of the append queue, then of the rewrite queue. Then it puts the
/// batch `reading.told`, if it has items, after the bytes of the last rewrite file, and syncs that queue.
///
/// # Errors
///
/// Those of `EngineFiles`: some of it was asked then.
pub fn ask_for_missing<F: EngineFiles>(
    files: &mut F,
    version: Version,
    reading: &mut Reading,
) -> Result<()>
    requires { IsToBeTold reading.old }
    ensures ok { OnOk result
        (F.asked files.new ≡ reading_asks version reading.old ++ F.asked files.old) }
    ensures err { IfErr result (FailsAmong F.may_fail (reading_asks version reading.old)
        (F.asked files.old) (F.asked files.new)) }
    ensures same { reading.new ≡ record reading.old { told = reading.new.told } }
{
    reading.append_missing.ask(files, LogQueue::Append)?;
    reading.rewrite_missing.ask(files, LogQueue::Rewrite)?;
    put_told_batch(files, version, reading)
}

/// Puts the batch that the rewrite queue has to be told at once after the bytes of its last file, and syncs the queue; nothing
/// is asked if the batch is without items.
///
/// # Errors
///
/// Those of `EngineFiles::append` and `EngineFiles::sync`: some of it was asked then.
fn put_told_batch<F: EngineFiles>(
    files: &mut F,
    version: Version,
    reading: &mut Reading,
) -> Result<()>
    requires { IsToBeTold reading.old }
    ensures ok { OnOk result (F.asked files.new
        ≡ asks_that_tell version reading.old.rewrite.seq reading.old.told reading.old.told.items ++ F.asked files.old) }
    ensures err { IfErr result (FailsAmong F.may_fail
        (asks_that_tell version reading.old.rewrite.seq reading.old.told reading.old.told.items)
        (F.asked files.old) (F.asked files.new)) }
    ensures same { reading.new ≡ record reading.old { told = reading.new.told } }
{
    if reading.told.is_empty() {
        return Ok(());
    }
    let file = LogFileContext::new(FileId::new(LogQueue::Rewrite, reading.rewrite.seq), version);
    put_batch(
        files,
        &file,
        reading.rewrite.len,
        &mut reading.told,
        reading.told_len,
    )?;
    files.sync(LogQueue::Rewrite)
}
