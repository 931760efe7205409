//! Opening an engine over copies of files in memory.

ghost use Rattle.std.specs.Prelude.{List, IfErr, IfOk, OnOk};
ghost use Rattle.raft_base.specs.declared.pipe_log.LogQueue.TheVariants.{Append, Rewrite};
ghost use Rattle.raft_files.specs.Asks.{Ask};
ghost use Rattle.raft_files.specs.Disk.{files_of};
ghost use Rattle.raft_files.specs.MemoryFaults.{IsMemoryFault};
ghost use Rattle.raft_engine.specs.Opened.{IsOpened};
ghost use Rattle.raft_engine.specs.Unopened.{AreBothAccepted, AreUnrecoveredAs, IsUnopened};
ghost use Rattle.raft_engine.specs.declared.recovery_mode.RecoveryMode.TheVariants.{TolerateTornTail};

use super::Engine;
use raft_base::{LogQueue, Result, Version};
use raft_files::MemoryFiles;
use std::alloc::Global;
use std::thread::Threads;

impl Engine<MemoryFiles> {
    /// Opens copies of files in memory, as [`Engine::open`] opens files: as if the machine had crashed, and lost nothing.
    /// `files` stay as they are.
    ///
    /// # Errors
    ///
    /// Those of [`Engine::open`], but that the copies are dropped.
    pub fn open_copies<R: Threads + Sync>(
        rt: &R,
        alloc: Global,
        version: Version,
        files: &MemoryFiles,
        workers: usize,
    ) -> Result<Engine<MemoryFiles>>
        ensures ok { IfOk result (IsOpened version (files_of Append files.now) (files_of Rewrite files.now)) }
        ensures accepted { OnOk result (AreBothAccepted TolerateTornTail version (files_of Append files.now)
            (files_of Rewrite files.now)) }
        ensures fault { IfErr result (λ e. (asks : List Ask) × IsUnopened (AreUnrecoveredAs version workers) IsMemoryFault
            TolerateTornTail version (files_of Append files.now) (files_of Rewrite files.now) asks e) }
    {
        let append = files.copies(LogQueue::Append)?;
        let rewrite = files.copies(LogQueue::Rewrite)?;
        let found_append = files.copies(LogQueue::Append)?;
        let found_rewrite = files.copies(LogQueue::Rewrite)?;
        let found = MemoryFiles::found(found_append, found_rewrite);
        Ok(Engine::open(rt, alloc, version, found, append, rewrite, workers)?)
    }
}
