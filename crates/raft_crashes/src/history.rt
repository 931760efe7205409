//! Histories of an engine: steps that are taken one after another, with crashes tried after each ask.

ghost use Rattle.std.specs.Prelude.{◌≡◌, OnOk};
ghost use Rattle.raft_records.specs.LogBatch.{is_open};

use crate::choice::Choice;
use crate::crashes::{Crashes, Host};
use crate::disk::{Crash, Disk};
use crate::found::{Way, open_found_files, read_all_records};
use crate::noted_files::NotedFiles;
use raft_base::{FileSeq, LogQueue, Result, Version};
use raft_engine::Engine;
use raft_files::MemoryFiles;
use raft_records::LogBatch;
use raft_samples::{Contents, Dice, describe_contents, get_or_insert_records};
use std::alloc::Global;
use std::collections::BTreeMap;

/// An engine, beside it the records that it must have, and what the disk holds of its files.
#[derive(Drop)]
pub(crate) struct History {
    alloc: Global,
    /// How the files are read.
    pub(crate) way: Way,
    /// Whether a crash is tried at each byte of each batch.
    by_bytes: bool,
    /// The engine. Its files note what it asks of them.
    engine: Engine<NotedFiles>,
    /// How many of the engine's asks were applied to the disk.
    taken: usize,
    /// The records that the engine must have.
    kept: Contents,
    /// What the disk holds.
    pub(crate) disk: Disk,
    /// What draws the changes and the crashes.
    pub(crate) dice: Dice,
}

impl History {
    /// Begins a history in this `way`, with an engine without records, and tries crashes after each ask of
    /// its making. `seed` is that of its dice. With `by_bytes` a crash is tried at each byte of each batch.
    ///
    /// # Errors
    ///
    /// Those of [`Engine::new`]; `Io` for the output; `Memory`.
    pub(crate) fn begin<R: Host>(
        crashes: &mut Crashes<'_, R>,
        seed: u64,
        way: Way,
        by_bytes: bool,
    ) -> Result<History> {
        let mut history = History::new(crashes.rt.alloc(), seed, way, by_bytes)?;
        history.end_step(crashes)?;
        Ok(history)
    }

    /// Returns a history in this `way`, with dice of `seed` and an engine without records. None of the
    /// engine's asks was applied to the disk yet.
    ///
    /// # Errors
    ///
    /// Those of [`Engine::new`]; `Memory`.
    fn new(alloc: Global, seed: u64, way: Way, by_bytes: bool) -> Result<History> {
        let disk = Disk::new(alloc)?;
        Ok(History {
            alloc,
            way,
            by_bytes,
            engine: new_engine(alloc, way.version)?,
            taken: 0,
            kept: BTreeMap::new(alloc),
            disk,
            dice: Dice::new(seed),
        })
    }

    /// Ends a step: compares the records that the engine has with those that it must have, applies what it
    /// asked of its files to the disk, and tries crashes after each ask. A difference is counted and printed,
    /// and is no error.
    ///
    /// # Errors
    ///
    /// Those of reading the records; `Io` for the output; `Memory`.
    fn end_step<R: Host>(&mut self, crashes: &mut Crashes<'_, R>) -> Result<()> {
        let wanted = describe_contents(self.alloc, &self.kept)?;
        self.compare_with_engine(crashes, wanted.as_str())?;
        self.apply_asks(crashes, wanted.as_str())
    }

    /// Compares the records that the engine has, as text, with `wanted`. A difference is counted and printed,
    /// and is no error.
    ///
    /// # Errors
    ///
    /// Those of reading the records; `Io` for the output; `Memory`.
    fn compare_with_engine<R: Host>(
        &mut self,
        crashes: &mut Crashes<'_, R>,
        wanted: &str,
    ) -> Result<()> {
        let contents = read_all_records(self.alloc, &mut self.engine)?;
        let found = describe_contents(self.alloc, &contents)?;
        crashes.compare_texts(found.as_str(), wanted, "kept")
    }

    /// Applies what was asked of the files since the last call to the disk, oldest first, and tries crashes
    /// after each ask. `wanted` is the text of the records with all batches that were written.
    ///
    /// # Errors
    ///
    /// `Io` for the output; `Memory`.
    fn apply_asks<R: Host>(&mut self, crashes: &mut Crashes<'_, R>, wanted: &str) -> Result<()> {
        let asks = &self.engine.files().asks;
        for ask in asks.iter().skip(self.taken) {
            self.disk.apply_ask(ask, wanted)?;
            let by_bytes = if self.by_bytes { Some(ask.queue) } else { None };
            crashes.try_crashes(self.way, &self.disk, by_bytes, &mut self.dice)?;
        }
        self.taken = asks.len();
        Ok(())
    }

    /// Writes a batch with `choices`, each the change of a region, and syncs it if `sync`. Then ends the
    /// step.
    ///
    /// # Errors
    ///
    /// Those of [`Engine::write`]; those of reading the records; `Io` for the output; `Memory`.
    pub(crate) fn write<R: Host>(
        &mut self,
        crashes: &mut Crashes<'_, R>,
        choices: &[(u64, Choice)],
        sync: bool,
    ) -> Result<()> {
        let mut batch = LogBatch::default(self.alloc);
        for choice in choices {
            self.add_change(&mut batch, choice.0, choice.1)?;
        }
        self.engine.write(&mut batch, sync)?;
        self.end_step(crashes)
    }

    /// Adds a change of `region`, drawn as `choice` says, to the open batch `batch`, and makes the same
    /// change of the records that the engine must have.
    ///
    /// # Errors
    ///
    /// `Memory`; those of the batch's call. The change may have been made in one of the two then.
    fn add_change(&mut self, batch: &mut LogBatch, region: u64, choice: Choice) -> Result<()>
        requires { batch.old.stage ≡ is_open }
        ensures { OnOk result (batch.new.stage ≡ is_open) }
    {
        let records = get_or_insert_records(self.alloc, &mut self.kept, region)?;
        let change = choice.draw_change(self.alloc, &mut self.dice, records)?;
        change.add_to_batch_and_records(batch, region, records)
    }

    /// Syncs the engine's append queue, and ends the step.
    ///
    /// # Errors
    ///
    /// Those of [`Engine::sync`]; those of reading the records; `Io` for the output; `Memory`.
    pub(crate) fn sync<R: Host>(&mut self, crashes: &mut Crashes<'_, R>) -> Result<()> {
        self.engine.sync()?;
        self.end_step(crashes)
    }

    /// Begins a new append file, and ends the step.
    ///
    /// # Errors
    ///
    /// Those of [`Engine::rotate`]; those of reading the records; `Io` for the output; `Memory`.
    pub(crate) fn rotate<R: Host>(&mut self, crashes: &mut Crashes<'_, R>) -> Result<()> {
        self.engine.rotate()?;
        self.end_step(crashes)
    }

    /// Moves the records in append files numbered at or below `gate` to the rewrite queue, and ends the step.
    ///
    /// # Errors
    ///
    /// Those of [`Engine::rewrite`]; those of reading the records; `Io` for the output; `Memory`.
    pub(crate) fn rewrite_up_to<R: Host>(
        &mut self,
        crashes: &mut Crashes<'_, R>,
        gate: FileSeq,
    ) -> Result<()> {
        self.engine.rewrite(gate)?;
        self.end_step(crashes)
    }

    /// Moves the records in rewrite files to a new rewrite file, and ends the step.
    ///
    /// # Errors
    ///
    /// Those of [`Engine::rewrite_again`]; those of reading the records; `Io` for the output; `Memory`.
    pub(crate) fn move_rewritten_records<R: Host>(
        &mut self,
        crashes: &mut Crashes<'_, R>,
    ) -> Result<()> {
        self.engine.rewrite_again()?;
        self.end_step(crashes)
    }

    /// Deletes the oldest files of `queue` that no table needs, and ends the step.
    ///
    /// # Errors
    ///
    /// Those of the engine's purge; those of reading the records; `Io` for the output; `Memory`.
    pub(crate) fn purge_queue<R: Host>(
        &mut self,
        crashes: &mut Crashes<'_, R>,
        queue: LogQueue,
    ) -> Result<()> {
        let _ = match queue {
            LogQueue::Append => self.engine.purge_expired_files()?,
            LogQueue::Rewrite => self.engine.purge_rewrite_files()?,
        };
        self.end_step(crashes)
    }

    /// Opens the engine anew over all that the files have, as after a stop without a crash.
    ///
    /// # Errors
    ///
    /// Those of opening the files; those of reading the records; `Io` for the output; `Memory`.
    pub(crate) fn restart<R: Host>(&mut self, crashes: &mut Crashes<'_, R>) -> Result<()> {
        let crash = self.disk.lossless_crash();
        self.reopen(crashes, crash)
    }

    /// Opens the engine anew over what a drawn crash leaves.
    ///
    /// # Errors
    ///
    /// Those of opening the files; those of reading the records; `Io` for the output; `Memory`.
    pub(crate) fn crash_and_reopen<R: Host>(&mut self, crashes: &mut Crashes<'_, R>) -> Result<()> {
        let crash = self.disk.draw_crash(&mut self.dice);
        self.reopen(crashes, crash)
    }

    /// Opens the engine anew over what `crash` leaves, and compares its records with those that must be left.
    /// The history goes on with these records. A difference is counted and printed, and is no error.
    ///
    /// # Errors
    ///
    /// Those of opening the files; those of reading the records; `Io` for the output; `Memory`.
    fn reopen<R: Host>(&mut self, crashes: &mut Crashes<'_, R>, crash: Crash) -> Result<()> {
        self.disk = self.disk.disk_after_crash(crash)?;
        self.open_engine_over_disk(crashes.rt)?;
        self.taken = 0;
        self.kept = read_all_records(self.alloc, &mut self.engine)?;
        self.compare_opened_records(crashes)?;
        self.end_step(crashes)
    }

    /// Opens an engine over the files that the disk holds, in place of the old one.
    ///
    /// # Errors
    ///
    /// Those of [`open_found_files`]; `Memory`. The old engine stays then.
    fn open_engine_over_disk<R: Host>(&mut self, rt: &R) -> Result<()> {
        let (append, rewrite) = self.disk.copy_files()?;
        self.engine = open_found_files(rt, self.alloc, self.way, append, rewrite)?;
        Ok(())
    }

    /// Compares the records that the engine had when it was opened with those that the disk must give. A
    /// difference is counted and printed, and is no error.
    ///
    /// # Errors
    ///
    /// `Io` for the output; `Memory`.
    fn compare_opened_records<R: Host>(&self, crashes: &mut Crashes<'_, R>) -> Result<()> {
        let found = describe_contents(self.alloc, &self.kept)?;
        crashes.compare_texts(found.as_str(), self.disk.synced_records(), "opened again")
    }

    /// Returns the number of the last append file, to which batches are written, or 0 if there is none.
    pub(crate) fn last_append_seq(&self) -> FileSeq {
        match self.engine.files().files.files(LogQueue::Append).last() {
            Some((seq, _)) => *seq,
            None => 0,
        }
    }
}

/// Returns an engine without records, of this `version`, over files in memory that note what it asks of them.
///
/// # Errors
///
/// Those of [`Engine::new`].
fn new_engine(alloc: Global, version: Version) -> Result<Engine<NotedFiles>> {
    let files = NotedFiles {
        files: MemoryFiles::new(alloc),
        asks: Vec::new(alloc),
    };
    Engine::new(alloc, version, files)
}
