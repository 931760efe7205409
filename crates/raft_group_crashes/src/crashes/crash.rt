//! Opens folders as a crash leaves them, and compares what a store then has with what it must have.

use crate::folder_pipe::FolderPipe;
use crate::logs::Logs;
use crate::store::{Host, Store};
use raft_base::{LogQueue, Result};
use raft_memtable::{MemTableAccessor, MemTableRecoverContextFactory};
use raft_recover::{OpenGate, replay_segments};
use raft_samples::describe_contents;

/// The name of the folder that holds what a crash leaves.
pub(crate) const CRASHED: &str = "raft_group_crashes_crashed";

/// How many bytes a file must have before a new one is begun.
pub(crate) const FILE_SIZE: u64 = 200;

/// Crashes that were tried, and how many times a store then had something else than it must have.
#[derive(Drop)]
pub(crate) struct Crashes<'a, R: Host + Print> {
    /// The machine.
    pub(crate) rt: &'a R,
    /// Whether a crash is tried at each byte of a batch.
    pub(crate) each_byte: bool,
    /// How many times a folder was opened.
    pub(crate) tried: u64,
    /// How many differences there were.
    pub(crate) different: u64,
}

impl<'a, R: Host + Print> Crashes<'a, R> {
    /// Opens the folder that a crash has left, recovers the tables with `workers` threads, and compares what
    /// the store then has with `expected`. A difference or a refusal is counted and printed, and is no error.
    ///
    /// # Errors
    ///
    /// `Io` for the output.
    pub(crate) fn reopen_and_compare(&mut self, workers: usize, expected: &str) -> Result<()> {
        self.tried = self.tried.saturating_add(1);
        match self.recover_contents_text(workers) {
            Ok(found) => self.compare_texts(found.as_str(), expected),
            Err(e) => {
                self.different = self.different.saturating_add(1);
                Ok(println!(self.rt; "{workers} workers refuse: {e}")?)
            }
        }
    }

    /// Counts a difference, and prints both texts, if `found` isn't `expected`.
    ///
    /// # Errors
    ///
    /// `Io` for the output.
    pub(crate) fn compare_texts(&mut self, found: &str, expected: &str) -> Result<()> {
        if found != expected {
            self.different = self.different.saturating_add(1);
            println!(self.rt; "found\n{found}in place of\n{expected}")?;
        }
        Ok(())
    }

    /// Opens a store in the folder that a crash has left, and returns what it has, as text. If `workers` is
    /// more than one, the tables are recovered once more, by so many threads.
    ///
    /// # Errors
    ///
    /// Those of [`Store::open`]; those of the recovery; those of reading the entries; `Memory`.
    fn recover_contents_text(&self, workers: usize) -> Result<String> {
        let alloc = self.rt.alloc();
        let mut store = Store::open(self.rt, CRASHED, FILE_SIZE, 1)?;
        if workers > 1 {
            store.tables = recover_tables(self.rt, &store.pipe, workers)?;
        }
        describe_contents(alloc, &store.read_contents()?)
    }
}

/// Recovers the tables of both queues of `pipe` by `workers` threads. Each thread takes the next whole file,
/// however short it is, so that even short files are read by several threads.
///
/// # Errors
///
/// `Io` for a file; those of [`replay_segments`]; `Memory`.
fn recover_tables<R: Host>(
    rt: &R,
    pipe: &FolderPipe<'_, R>,
    workers: usize,
) -> Result<MemTableAccessor> {
    let logs = Logs::read(rt.alloc(), pipe)?;
    let factory = MemTableRecoverContextFactory::new();
    let (rewrite, append) = (logs.rewrite.as_slice(), logs.append.as_slice());
    let gate = OpenGate;
    let mut both = replay_segments(
        rt,
        rt.alloc(),
        &factory,
        rewrite,
        LogQueue::Rewrite,
        workers,
        &gate,
    )?;
    let new = replay_segments(
        rt,
        rt.alloc(),
        &factory,
        append,
        LogQueue::Append,
        workers,
        &gate,
    )?;
    both.merge_append_context(new)?;
    both.finish()
}
