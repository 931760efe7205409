//! Random histories of a store: steps that are taken one after another, with crashes tried after each.

ghost use Rattle.std.specs.Prelude.{◌≡◌, OnOk};
ghost use Rattle.raft_records.specs.LogBatch.{is_open};

use crate::crashes::crash::{CRASHED, Crashes, FILE_SIZE};
use crate::crashes::disk::DiskNotes;
use crate::folder_pipe::{file_path, remove_folder};
use crate::store::{Host, Store};
use raft_base::{Error, FileId, FileSeq, LogQueue, Result};
use raft_records::LogBatch;
use raft_samples::{Change, Contents, Dice, describe_contents, get_or_insert_records};
use std::collections::BTreeMap;
use std::fs;

/// The name of the folder of a history.
pub(crate) const FOLDER: &str = "raft_group_crashes_history";

/// Steps in a row that lose or bring back entries if the rewrite queue isn't told of runs that replace some:
/// all records move, entries are replaced and compacted to their end, and all append files are deleted.
static REPLACED: [u64; 4] = [24, 25, 26, 20];

/// Returns the steps that [`REPLACED`] lists, which are taken one after another.
fn replacing_steps() -> &'static [u64] {
    &REPLACED
}

/// A store, beside it the records that it must have, and what the disk holds of its files.
#[derive(Drop)]
pub(crate) struct History<'a, R: Host> {
    rt: &'a R,
    /// How many bytes a file must have before a new one is begun.
    file_size: u64,
    /// The store.
    store: Store<'a, R>,
    /// The records that it must have.
    kept: Contents,
    /// What the disk holds.
    disk: DiskNotes,
    /// What draws the steps, the changes and the crashes.
    dice: Dice,
    /// How many steps of [`REPLACED`] were taken.
    taken: usize,
}

impl<'a, R: Host + Print> History<'a, R> {
    /// Begins the history of `seed`: makes a folder with an empty file of each queue, numbered 0 or 1, opens
    /// a store in it, and makes the same folder for its crashes. In half of the histories a file has only one
    /// batch or two.
    ///
    /// # Errors
    ///
    /// `Io` for a file; `Memory`; those of opening the store.
    pub(crate) fn begin(rt: &'a R, seed: u64) -> Result<History<'a, R>> {
        let first = seed % 2;
        let file_size = if seed / 2 % 2 == 0 { FILE_SIZE } else { 40 };
        make_folder(rt, FOLDER, first)?;
        make_folder(rt, CRASHED, first)?;
        Ok(History {
            rt,
            file_size,
            store: open_store(rt, file_size)?,
            kept: BTreeMap::new(rt.alloc()),
            disk: DiskNotes::new(rt.alloc(), first)?,
            dice: Dice::new(seed),
            taken: replacing_steps().len(),
        })
    }

    /// Takes one step, compares what the store then has with what it must have, and tries crashes after each
    /// change of the files. A difference is counted and printed, and is no error.
    ///
    /// # Errors
    ///
    /// `Io` for a file or the output; `Memory`; those of the store's call.
    pub(crate) fn run_step(&mut self, crashes: &mut Crashes<'a, R>) -> Result<()> {
        match self.choose_next_step() {
            0..=9 => self.write()?,
            10 => self.store.rotate(LogQueue::Append)?,
            11 => self.store.rewrite_tombstones()?,
            12..=14 => self.rewrite_some()?,
            15 | 16 => {
                let _ = self.store.rewrite_rewrite_queue()?;
            }
            17..=19 => self.purge_files()?,
            20 | 21 => self.store = open_store(self.rt, self.file_size)?,
            22 | 23 => self.crash_and_reopen(crashes)?,
            24 => self.rotate_and_rewrite_all()?,
            25 => self.write_replacements()?,
            _ => self.rotate_and_purge_all()?,
        }
        self.compare_and_try_crashes(crashes)
    }

    /// Returns the number of the next step: the next one of [`REPLACED`] as long as these aren't all taken,
    /// else one that is drawn, which may be the first of them.
    fn choose_next_step(&mut self) -> u64 {
        if let Some(step) = replacing_steps().get(self.taken) {
            self.taken = self.taken.saturating_add(1);
            return *step;
        }
        let step = self.dice.draw_below(25);
        if step == 24 {
            self.taken = 1;
        }
        step
    }

    /// Moves records of the append queue to the rewrite queue: in half of the cases all of them, else those
    /// of the files before the last one.
    ///
    /// # Errors
    ///
    /// Those of [`Store::rewrite_append_queue`] and [`Store::rotate`].
    fn rewrite_some(&mut self) -> Result<()> {
        if self.dice.draw_one_in(2) {
            return self.rotate_and_rewrite_all();
        }
        let _ = self.store.rewrite_append_queue()?;
        Ok(())
    }

    /// Begins a new append file, and moves all records of those before it to the rewrite queue.
    ///
    /// # Errors
    ///
    /// Those of [`Store::rotate`] and [`Store::rewrite_append_queue`].
    fn rotate_and_rewrite_all(&mut self) -> Result<()> {
        self.store.rotate(LogQueue::Append)?;
        let _ = self.store.rewrite_append_queue()?;
        Ok(())
    }

    /// Deletes the oldest files that no table needs. In half of the cases a new append file is begun first.
    ///
    /// # Errors
    ///
    /// Those of [`Store::rotate`] and [`Store::purge`].
    fn purge_files(&mut self) -> Result<()> {
        if self.dice.draw_one_in(2) {
            self.store.rotate(LogQueue::Append)?;
        }
        let _ = self.store.purge()?;
        Ok(())
    }

    /// Begins a new append file, and deletes the oldest files that no table needs. In half of the cases the
    /// store is opened again first, and moves all records of the append queue.
    ///
    /// # Errors
    ///
    /// Those of opening the store; those of moving its records; those of [`Store::purge`].
    fn rotate_and_purge_all(&mut self) -> Result<()> {
        if self.dice.draw_one_in(2) {
            self.store = open_store(self.rt, self.file_size)?;
            self.rotate_and_rewrite_all()?;
        }
        self.store.rotate(LogQueue::Append)?;
        let _ = self.store.purge()?;
        Ok(())
    }

    /// Compares the records of the store with those that it must have. A difference is counted in `crashes`
    /// and printed, and is no error. Then applies the changes that the store made to its files since the last
    /// call to the model of the disk, oldest first. The model tries crashes on the way.
    ///
    /// # Errors
    ///
    /// Those of reading the store's records; `Io` for a file or the output; `Memory`.
    fn compare_and_try_crashes(&mut self, crashes: &mut Crashes<'a, R>) -> Result<()> {
        let alloc = self.rt.alloc();
        let new = describe_contents(alloc, &self.kept)?;
        let found = describe_contents(alloc, &self.store.read_contents()?)?;
        crashes.compare_texts(found.as_str(), new.as_str())?;
        if let Some(changes) = self.store.changes.replace(Vec::new(alloc)) {
            for change in changes {
                self.disk
                    .apply_change(crashes, &mut self.dice, change, new.as_str())?;
            }
        }
        Ok(())
    }

    /// Cuts the last file of each queue where a drawn crash ends it, opens the store again, and compares what
    /// it has with what must be left. The history goes on from there.
    ///
    /// # Errors
    ///
    /// `Io` for a file or the output; `Memory`; those of [`Store::open`].
    fn crash_and_reopen(&mut self, crashes: &mut Crashes<'a, R>) -> Result<()> {
        let alloc = self.rt.alloc();
        let (append, rewrite, prefix) = self.disk.draw_crash(&mut self.dice)?;
        self.store.pipe.cut_file(append.0, append.1 as u64)?;
        self.store.pipe.cut_file(rewrite.0, rewrite.1 as u64)?;
        self.store = open_store(self.rt, self.file_size)?;
        self.kept = self.store.read_contents()?;
        crashes.compare_texts(
            describe_contents(alloc, &self.kept)?.as_str(),
            prefix.as_str(),
        )
    }

    /// Writes a batch of one to three drawn changes, in one of four cases with a sync. The same changes are
    /// made of the records that the store must have, before the batch is written.
    ///
    /// # Errors
    ///
    /// Those of the batch's calls; those of [`Store::write`]; `Memory`. The records may have been changed
    /// then.
    fn write(&mut self) -> Result<()> {
        let mut batch = LogBatch::default(self.rt.alloc());
        for _ in 0..self.dice.draw_below(3) + 1 {
            self.add_change(&mut batch)?;
        }
        let sync = self.dice.draw_one_in(4);
        self.store.write(batch, sync)
    }

    /// Writes a batch that replaces entries of each region that is in `kept`, and compacts it to its end. The
    /// same changes are made of the records in `kept`.
    ///
    /// # Errors
    ///
    /// Those of the batch's calls; `Failed` if the batch isn't open any more; those of [`Store::write`];
    /// `Memory`. The records may have been changed then.
    fn write_replacements(&mut self) -> Result<()> {
        let alloc = self.rt.alloc();
        let mut batch = LogBatch::default(alloc);
        for region in 1..3u64 {
            if let (Some(records), true) = (self.kept.get_mut(&region), batch.is_open()) {
                let change = Change::draw_replacement(alloc, &mut self.dice, records)?;
                change.add_to_batch_and_records(&mut batch, region, records)?;
            }
        }
        if !batch.is_open() {
            return Err(Error::Failed);
        }
        self.store.write(batch, false)
    }

    /// Adds a drawn change of one of two regions to the open batch `batch`, and makes the same change of the
    /// records that the store must have.
    ///
    /// # Errors
    ///
    /// `Memory`; those of the batch's call. The change may then be made in only one of the two, or in part.
    fn add_change(&mut self, batch: &mut LogBatch) -> Result<()>
        requires { batch.old.stage ≡ is_open }
        ensures { OnOk result (batch.new.stage ≡ is_open) }
    {
        let alloc = self.rt.alloc();
        let region = self.dice.draw_below(2) + 1;
        let records = get_or_insert_records(alloc, &mut self.kept, region)?;
        Change::draw_any(alloc, &mut self.dice, records)?.add_to_batch_and_records(
            batch, region, records,
        )
    }
}

/// Opens the store in [`FOLDER`], whose tables four workers recover. From then on it notes what it does to
/// its files. A file gets at least `file_size` bytes before the next one is begun.
///
/// # Errors
///
/// Those of [`Store::open`].
fn open_store<R: Host>(rt: &R, file_size: u64) -> Result<Store<'_, R>> {
    let mut store = Store::open(rt, FOLDER, file_size, 4)?;
    store.changes = Some(Vec::new(rt.alloc()));
    Ok(store)
}

/// Makes `folder` with an empty file of each queue, numbered `seq`. A folder that is there is removed first.
///
/// # Errors
///
/// `Io` for the folder or a file; `Memory`.
fn make_folder<R: Host>(rt: &R, folder: &str, seq: FileSeq) -> Result<()> {
    remove_folder(rt, folder)?;
    fs::create_dir_all(rt, folder)?;
    for queue in [LogQueue::Append, LogQueue::Rewrite] {
        let path = file_path(rt.alloc(), folder, FileId::new(queue, seq))?;
        fs::write(rt, path.as_str(), b"")?;
    }
    Ok(())
}
