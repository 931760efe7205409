//! Opening an engine over tables that others recovered.

ghost use Rattle.std.specs.Prelude.{◌≡◌, map, IfErr, IfOk, OnOk};
ghost use Rattle.raft_files.specs.HeldFiles.{file_shown};
ghost use Rattle.raft_engine.specs.CutTails.{IsRecoveredOf};
ghost use Rattle.raft_engine.specs.DamagedBatches.{AreDamagedTold};
ghost use Rattle.raft_engine.specs.Opened.{IsOpened};
ghost use Rattle.raft_engine.specs.ReadContexts.{HaveReadFound};
ghost use Rattle.raft_engine.specs.StoredFound.{found_asks};
ghost use Rattle.raft_engine.specs.Unopened.{AreBothAccepted, AreUngroupedAs, IsUnopened};
ghost use Rattle.raft_engine.specs.declared.recovery_mode.RecoveryMode.TheVariants.{TolerateTornTail};

use super::Engine;
use crate::reading::read_with_contexts;
use crate::recovery_mode::RecoveryMode;
use crate::unopened::{Opened, Unopened};
use raft_base::{FileSeq, Version};
use raft_contexts::MemTableRecoverContext;
use raft_files::EngineFiles;
use std::alloc::Global;

impl<F: EngineFiles> Engine<F> {
    /// Opens files that a crash left, as [`Engine::open`] does, but starts no threads and reads no batches: the caller has
    /// read them. `appended` is the context that has read those of `append`, in order, up to where the last file can't be read
    /// any further, and `rewritten` is that of `rewrite`; on which threads they were read doesn't matter.
    ///
    /// # Errors
    ///
    /// The files are handed back with each error. Nothing was asked of them after `Memory`, or if they are refused for a
    /// reason that [`Engine::open`] names. A batch that can't be read or can't follow, and the number of workers, are never
    /// the reason here.
    ///
    /// If a call of `EngineFiles` fails, what was asked before stays done, and whatever is left of the files has the records
    /// that were found. They may be listed and opened again.
    pub fn open_over(
        alloc: Global,
        version: Version,
        files: F,
        append: Vec<(FileSeq, Vec<u8>)>,
        rewrite: Vec<(FileSeq, Vec<u8>)>,
        appended: MemTableRecoverContext,
        rewritten: MemTableRecoverContext,
    ) -> std::result::Result<Engine<F>, Unopened<F>>
        requires asked { F.asked files
            ≡ found_asks (map file_shown append.items) (map file_shown rewrite.items) }
        requires read { HaveReadFound version (map file_shown append.items) (map file_shown rewrite.items) appended rewritten }
        ensures ok { IfOk result (IsOpened version (map file_shown append.items)
            (map file_shown rewrite.items)) }
        ensures accepted { OnOk result (AreBothAccepted TolerateTornTail version (map file_shown append.items)
            (map file_shown rewrite.items)) }
        ensures err { IfErr result (λ unopened. IsUnopened (AreUngroupedAs version) F.may_fail TolerateTornTail version
            (map file_shown append.items) (map file_shown rewrite.items) (F.asked unopened.files) unopened.error) }
    {
        match Engine::open_over_telling(
            alloc,
            RecoveryMode::TolerateTornTail,
            version,
            files,
            append,
            rewrite,
            appended,
            rewritten,
        ) {
            Ok(opened) => Ok(opened.engine),
            Err(unopened) => Err(unopened),
        }
    }

    /// Opens files that a crash left in the given `mode`, with contexts that have read their batches, as [`Engine::open_over`]
    /// does. The contexts have read up to where reading stops, in each mode. Returns with the engine what was cut off, and
    /// which batches of the last append file have damaged entries, as [`Engine::open_telling`] does.
    ///
    /// # Errors
    ///
    /// Those of [`Engine::open_over`]. But a queue's last file that can't be read to its end is always refused in the mode
    /// `AbsoluteConsistency`, and never for that in the mode `TolerateTailCorruption`.
    pub fn open_over_telling(
        alloc: Global,
        mode: RecoveryMode,
        version: Version,
        files: F,
        append: Vec<(FileSeq, Vec<u8>)>,
        rewrite: Vec<(FileSeq, Vec<u8>)>,
        appended: MemTableRecoverContext,
        rewritten: MemTableRecoverContext,
    ) -> std::result::Result<Opened<F>, Unopened<F>>
        requires asked { F.asked files
            ≡ found_asks (map file_shown append.items) (map file_shown rewrite.items) }
        requires read { HaveReadFound version (map file_shown append.items) (map file_shown rewrite.items) appended rewritten }
        ensures ok { IfOk result (λ opened. IsOpened version (map file_shown append.items)
            (map file_shown rewrite.items) opened.engine) }
        ensures recovered { IfOk result (λ opened. IsRecoveredOf version (map file_shown append.items)
            (map file_shown rewrite.items) opened.recovered) }
        ensures damaged { IfOk result (λ opened. AreDamagedTold version (map file_shown append.items) opened.damaged.items) }
        ensures accepted { OnOk result (AreBothAccepted mode version (map file_shown append.items)
            (map file_shown rewrite.items)) }
        ensures err { IfErr result (λ unopened. IsUnopened (AreUngroupedAs version) F.may_fail mode version
            (map file_shown append.items) (map file_shown rewrite.items) (F.asked unopened.files) unopened.error) }
    {
        match read_with_contexts(alloc, mode, version, append, rewrite, appended, rewritten) {
            Ok(read) => Engine::of_reading(version, files, read.reading, read.damaged),
            Err(error) => Err(Unopened { files, error }),
        }
    }
}
