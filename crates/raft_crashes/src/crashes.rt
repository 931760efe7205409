//! Tries crashes: recovers what is left, opens it, and lets the openings crash too.

use crate::disk::{Crash, Disk};
use crate::found::{Way, open_found_files, read_all_records, recover_records};
use crate::noted_files::NotedFiles;
use raft_base::{Error, LogQueue, Result};
use raft_engine::Engine;
use raft_samples::{Contents, Dice, describe_contents};
use std::alloc::Global;
use std::thread::Threads;

/// What this program needs of the machine: memory, threads that recover, and output.
pub(crate) trait Host: AllocGlobal + Threads + Sync + Print + Eprint {}

impl<R: AllocGlobal + Threads + Sync + Print + Eprint> Host for R {}

/// How many openings in a row are tried after a crash, at most. Half of the openings crash in turn.
const RESTARTS: usize = 4;

/// What was tried so far, and how often something else was read than there had to be.
#[derive(Drop)]
pub(crate) struct Crashes<'a, R: Host> {
    /// The machine.
    pub(crate) rt: &'a R,
    /// How many crashes were tried.
    pub(crate) tried: u64,
    /// How many times both queues were recovered, alone or by an opening.
    pub(crate) recoveries: u64,
    /// How many differences there were.
    pub(crate) different: u64,
}

impl<'a, R: Host> Crashes<'a, R> {
    /// Returns the machine's allocator.
    fn alloc(&self) -> Global {
        self.rt.alloc()
    }

    /// Tries a drawn crash of `disk`. If `by_bytes` names a queue, tries each crash before it that
    /// [`Disk::crashes_of_queue`] lists of that queue. `way` says how the files are read. A difference is
    /// counted and printed, and is no error.
    ///
    /// # Errors
    ///
    /// `Io` for the output; `Memory`.
    pub(crate) fn try_crashes(
        &mut self,
        way: Way,
        disk: &Disk,
        by_bytes: Option<LogQueue>,
        dice: &mut Dice,
    ) -> Result<()> {
        if let Some(queue) = by_bytes {
            for crash in disk.crashes_of_queue(queue)? {
                self.try_crash(way, disk, crash, dice)?;
            }
        }
        let crash = disk.draw_crash(dice);
        self.try_crash(way, disk, crash, dice)
    }

    /// Tries one crash of `disk`: recovers the whole batches that it leaves, then opens all that it leaves,
    /// and what crashes of these openings leave, in at most `RESTARTS` openings.
    ///
    /// # Errors
    ///
    /// `Io` for the output; `Memory`.
    fn try_crash(&mut self, way: Way, disk: &Disk, crash: Crash, dice: &mut Dice) -> Result<()> {
        self.tried = self.tried.saturating_add(1);
        let mut left = disk.disk_after_crash(crash)?;
        self.recover_and_compare(way, &left)?;
        for _ in 0..RESTARTS {
            match self.open_and_compare(way, &mut left, dice)? {
                Some(next) => left = next,
                None => return Ok(()),
            }
        }
        Ok(())
    }

    /// Recovers the whole batches that `disk` holds. If this is refused, or the records aren't those that the
    /// disk must give, a difference is counted and printed.
    ///
    /// # Errors
    ///
    /// `Io` for the output; `Memory`.
    fn recover_and_compare(&mut self, way: Way, disk: &Disk) -> Result<()> {
        self.recoveries = self.recoveries.saturating_add(1);
        let (append, rewrite) = disk.copy_untorn_files()?;
        match recover_records(self.rt, self.alloc(), way, append, rewrite) {
            Ok(contents) => self.compare_contents(&contents, disk.synced_records(), "recovered"),
            Err(e) => self.count_refusal("not recovered", &e),
        }
    }

    /// Opens an engine over the files of `disk`. If this is refused, or its records aren't those that the
    /// disk must give, a difference is counted and printed. In half of the cases, and only if the opening
    /// asked anything of the files, returns the disk that a crash in the midst of the opening leaves; else
    /// `None`.
    ///
    /// # Errors
    ///
    /// `Io` for the output; `Memory`.
    fn open_and_compare(
        &mut self,
        way: Way,
        disk: &mut Disk,
        dice: &mut Dice,
    ) -> Result<Option<Disk>> {
        self.recoveries = self.recoveries.saturating_add(1);
        let (append, rewrite) = disk.copy_files()?;
        match open_found_files(self.rt, self.alloc(), way, append, rewrite) {
            Ok(mut engine) => self.compare_and_crash_opening(&mut engine, disk, dice),
            Err(e) => {
                self.count_refusal("not opened", &e)?;
                Ok(None)
            }
        }
    }

    /// Compares the records of `engine`, which was opened over `disk`, with those that the disk must give. If
    /// reading them is refused, or they differ, a difference is counted and printed. In half of the cases,
    /// and only if the opening asked anything of the files, returns the disk that a crash after one of these
    /// asks leaves; else `None`.
    ///
    /// # Errors
    ///
    /// `Io` for the output; `Memory`.
    fn compare_and_crash_opening(
        &mut self,
        engine: &mut Engine<NotedFiles>,
        disk: &mut Disk,
        dice: &mut Dice,
    ) -> Result<Option<Disk>> {
        match read_all_records(self.alloc(), engine) {
            Ok(contents) => self.compare_contents(&contents, disk.synced_records(), "opened")?,
            Err(e) => self.count_refusal("not read", &e)?,
        }
        let asks = &engine.files().asks;
        if asks.is_empty() || dice.draw_one_in(2) {
            return Ok(None);
        }
        let count = dice.draw_below(asks.len() as u64) as usize;
        for ask in asks.iter().take(count.saturating_add(1)) {
            disk.apply_ask(ask, "")?;
        }
        let crash = disk.draw_crash(dice);
        Ok(Some(disk.disk_after_crash(crash)?))
    }

    /// Counts a difference, and prints both texts, if `contents` aren't `wanted` as text. `how` says in the
    /// print how they were read.
    ///
    /// # Errors
    ///
    /// `Io` for the output; `Memory`.
    fn compare_contents(&mut self, contents: &Contents, wanted: &str, how: &str) -> Result<()> {
        let found = describe_contents(self.alloc(), contents)?;
        self.compare_texts(found.as_str(), wanted, how)
    }

    /// Counts a difference, as something that had to succeed failed with `error`. Prints `how`, which says
    /// what was refused, and the error.
    ///
    /// # Errors
    ///
    /// `Io` for the output; `Memory`.
    fn count_refusal(&mut self, how: &str, error: &Error) -> Result<()> {
        let text = format!(in self.alloc(); "{how}: {error}")?;
        self.count_difference(text.as_str())
    }

    /// Counts a difference, and prints both texts, if `found` isn't `wanted`. `how` says in the print how
    /// `found` was read.
    ///
    /// # Errors
    ///
    /// `Io` for the output; `Memory`.
    pub(crate) fn compare_texts(&mut self, found: &str, wanted: &str, how: &str) -> Result<()> {
        if found == wanted {
            return Ok(());
        }
        let text = format!(in self.alloc(); "{how}\n{found}in place of\n{wanted}")?;
        self.count_difference(text.as_str())
    }

    /// Counts a difference, and prints the error, if `taken` is one. It is the result of a step that had to
    /// succeed.
    ///
    /// # Errors
    ///
    /// `Io` for the output; `Memory`.
    pub(crate) fn check_success(&mut self, taken: Result<()>) -> Result<()> {
        match taken {
            Ok(()) => Ok(()),
            Err(e) => self.count_refusal("refused", &e),
        }
    }

    /// Prints where a difference was found: the `kind` and the `number` of the history, and the step.
    ///
    /// # Errors
    ///
    /// `Io` for the output.
    pub(crate) fn print_where_different(&self, kind: &str, number: u64, step: u64) -> Result<()> {
        Ok(println!(self.rt; "so in the history of {kind} {number}, step {step}")?)
    }

    /// Counts a difference, and prints `text`, which says what is different.
    ///
    /// # Errors
    ///
    /// `Io` for the output.
    pub(crate) fn count_difference(&mut self, text: &str) -> Result<()> {
        self.different = self.different.saturating_add(1);
        Ok(println!(self.rt; "{text}")?)
    }
}
