//! An engine over the files of two queues.

ghost use Rattle.std.specs.Prelude.{◌≡◌, ◌≢◌, ◌⊎◌, ◌↔◌, ℕ, ◌+◌, ◌^◌, ◌<◌, ◌≤◌, List, [], ◌∷◌, true, false, IfErr, IfOk, MatchOption, OnOk, OnErr, IsTrue, map, option_map};
ghost use Rattle.std.specs.FinMap as finite;
ghost use Rattle.raft_base.specs.declared.entry_index.EntryIndex.{EntryIndex};
ghost use Rattle.raft_base.specs.declared.pipe_log.LogQueue.TheVariants.{Append, Rewrite};
ghost use Rattle.raft_records.specs.LogBatch.{empty_batch, encoded_length, is_open};
ghost use Rattle.raft_accessor.specs.AppendChecks.{AreAccepted, AreAcceptedOncePlaced};
ghost use Rattle.raft_accessor.specs.Writes.{Appending, AreWritten};
ghost use Rattle.raft_files.specs.Asks.{Begin, NumberedBytes, Sync, ask};
ghost use Rattle.raft_table.specs.KeyValues.{value_at};
ghost use Rattle.raft_base.specs.Runs.{end_of};
ghost use Rattle.raft_table.specs.TableEntries.{start_of};
ghost use Rattle.raft_engine_prefixes.specs.Contents.{AreBothTold};
ghost use Rattle.raft_engine.specs.KeptEngine.{table_in};
ghost use Rattle.raft_engine.specs.CutTails.{IsRecoveredOf};
ghost use Rattle.raft_engine.specs.DamagedBatches.{AreDamagedTold};
ghost use Rattle.raft_engine.specs.Broken.{IsFirstFault};
ghost use Rattle.raft_engine.specs.Lasting.{IsLasting};
ghost use Rattle.raft_files.specs.HeldFiles.{file_shown};
ghost use Rattle.raft_engine.specs.Opened.{IsOpened};
ghost use Rattle.raft_engine.specs.ReadFound.{AreReadFound, IsToBeTold};
ghost use Rattle.raft_engine.specs.StoredFound.{found_asks};
ghost use Rattle.raft_engine.specs.Unopened.{AreBothAccepted, AreUnrecoveredAs, IsHalfOpened, IsUnopened};
ghost use Rattle.raft_engine.specs.declared.recovery_mode.RecoveryMode.TheVariants.{TolerateTornTail};
ghost use Rattle.raft_engine.specs.Purged.{ArePurged, IsUnpurged};
ghost use Rattle.raft_engine.specs.WrittenBatch.{IsNextRefused, IsOneMore, IsOnlySynced, IsRotated, IsUnrotated, IsUnsynced, IsUnwritten, LacksRoom};

use crate::limits::{FIRST_SEQ, LAST_OFFSET};
use crate::opened::ask_for_missing;
use crate::put::{sync_append_if, try_put};
use crate::queue_files::QueueFiles;
use crate::read_back::batches_are_read_back;
use crate::reading::{Reading, read_found_files};
use crate::recovered::{DamagedBatch, Recovered};
use crate::recovery_mode::RecoveryMode;
use crate::stored::{asks_are_stored, what_is_done_lasts};
use crate::stored_found::found_files_are_stored;
use crate::unopened::{Opened, Unopened};
use crate::untold::removals_by_items;
use raft_accessor::MemTableAccessor;
use raft_accessor::accessor::accepted_items_lack_room_alone;
use raft_base::{Error, FileId, FileSeq, LogFileContext, LogQueue, Result, Version};
use raft_engine_laws::crashes::nothing_is_lost;
use raft_engine_laws::telling::told_items_take_away_the_same;
use raft_engine_prefixes::contents::told_contents_last;
use raft_engine_prefixes::prefixes::asks_put_batches;
use raft_files::EngineFiles;
use raft_records::LogBatch;
use std::alloc::Global;
use std::marker::Model;
use std::thread::Threads;

mod again;
mod copies;
mod files;
mod groups;
mod over;
mod reading;
mod rewrite;
mod round_trip;

/// The logs of many regions: files that the machine keeps, and the tables of all batches that were written to them.
///
/// Whenever the machine crashes, the files that are left hold what was synced, and a prefix of the batches that were written
/// since ([`Engine::nothing_synced_is_lost`]); what a disk has to do for it stands at [`EngineFiles`]. An append that the files
/// take back, since the disk is full for instance, leaves an intact engine, unless it is one of an atomic group; of a
/// [`write`](Engine::write) nothing is changed then. After any other `Err` of its files in a call that writes, they may hold a
/// batch that the tables don't: such an engine isn't intact, and takes no further call that writes. Its files must be opened
/// again ([`Engine::open`]).
///
/// A batch may take records away that have moved to rewrite files: by a command, the deletion of a key, or entries that
/// replace others. The rewrite queue has to say so too, by a batch of commands and deletions, before the append file of that
/// batch is deleted. This is written when records move or files are deleted, and until then the engine keeps it ready.
#[derive(Drop)]
pub struct Engine<F: EngineFiles> {
    /// The files of both queues, which take the bytes.
    files: F,
    /// The version in which batches are written.
    version: Version,
    /// What is known of the append files.
    append: QueueFiles,
    /// What is known of the rewrite files.
    rewrite: QueueFiles,
    /// What batches of the append queue took away of older records, as commands and deletions that aren't in the rewrite queue
    /// yet: the rewrite queue is told them before a file is deleted or a record moves.
    untold: LogBatch,
    /// The tables of all regions.
    accessor: MemTableAccessor,
    /// Whether further calls are taken: no call of the files failed but reads and appends that were taken back, and every batch
    /// whose bytes stand was applied.
    intact: bool,
}

impl<F: EngineFiles> Model for Engine<F> {
    ghost use Rattle.raft_engine.specs.KeptEngine.{KeptEngine};
    ghost use Rattle.raft_engine.specs.KeptEngineCode.{engine_code};

    ghost Value = { KeptEngine };

    ghost coded = { engine_code };

    ghost use Rattle.raft_engine.specs.KeptEngineView.{engine_shown, IsKept};

    ghost view = { engine_shown F.asked };

    ghost invariant = { IsKept F.asked };
}

impl<F: EngineFiles> Engine<F> {
    /// Makes an engine over files of which nothing was asked yet. Begins an empty file in each queue; there are no tables.
    ///
    /// # Errors
    ///
    /// `Memory`, and those of `EngineFiles::rotate`. The files are dropped then.
    pub fn new(alloc: Global, version: Version, files: F) -> Result<Engine<F>>
    where
        F: Drop,
        requires { F.asked files ≡ [] }
        ensures version { IfOk result (λ engine. engine.version ≡ version) }
        ensures asked { IfOk result (λ engine. engine.asks
            ≡ ask Rewrite (Begin 1) ∷ ask Append (Begin 1) ∷ []) }
        ensures untold { IfOk result (λ engine. engine.untold ≡ empty_batch) }
        ensures tables { IfOk result (λ engine. engine.accessor.tables ≡ finite.empty) }
        ensures cleaned { IfOk result (λ engine. engine.accessor.cleaned ≡ []) }
        ensures intact { IfOk result (λ engine. engine.intact ≡ true) }
        ensures fault { IfErr result (IsFirstFault F.may_fail) }
    {
        asks_are_stored();
        let mut files = files;
        let accessor = MemTableAccessor::new(alloc)?;
        files.rotate(LogQueue::Append, FIRST_SEQ)?;
        files.rotate(LogQueue::Rewrite, FIRST_SEQ)?;
        Ok(Engine {
            files,
            version,
            append: QueueFiles::first(alloc, FIRST_SEQ),
            rewrite: QueueFiles::first(alloc, FIRST_SEQ),
            untold: LogBatch::default(alloc),
            accessor,
            intact: true,
        })
    }

    /// Opens the files that a crash left, whoever wrote them. `append` and `rewrite` are the numbers and the bytes of each
    /// queue's files, oldest first. The tables are those that `recover_both` gives of these files, with `workers` threads.
    ///
    /// Once all is read, `files` is asked for what is missing: the first file of a queue without one, and the cut of the torn
    /// tail of a queue's last file. What the append files take away of the rewritten records is written to the rewrite queue
    /// later, as after a write. It is written at once for a region whose remaining rewritten entries lie below the appended
    /// ones and don't join them; in files that engines wrote there is none.
    ///
    /// # Errors
    ///
    /// The files are handed back with each error. Nothing was asked of them if they are refused:
    /// - `Corruption` if the number of a file isn't one above that of the file before it. The text names the first file that
    ///   is missing.
    /// - `Corruption` if a queue's last file is damaged: the bytes from where its reading stops can't be all that is left of
    ///   one batch, and after that place stands a batch that can be read, or one that is signed for another file. The text
    ///   names both places.
    /// - `Corruption` if the first batch of a queue's last file can be read in the other version alone, or if a batch of the
    ///   last rewrite file has damaged entries.
    /// - `Corruption` with the file and the offset at the start of its text, `Codec` or `Io`, as `recover_both` refuses it, if
    ///   a batch can't be read or can't follow those before it.
    /// - `InvalidArgument` if a batch of the rewrite files goes on with an atomic group, or ends it, and doesn't stand
    ///   directly after one that begins the group or goes on with it, in the same file; if a queue's last file is one of
    ///   raft-engine; and for another number of workers than 1 to 256.
    /// - `Full` if the files of a queue have 2^63 bytes or more, or if 2^56 bytes or more would have to be written at once.
    /// - `Memory`.
    ///
    /// If a call of `EngineFiles` fails, some of it was asked, and whatever is left of the files has the records that were
    /// found. They may be found again, and opened.
    pub fn open<R: Threads + Sync>(
        rt: &R,
        alloc: Global,
        version: Version,
        files: F,
        append: Vec<(FileSeq, Vec<u8>)>,
        rewrite: Vec<(FileSeq, Vec<u8>)>,
        workers: usize,
    ) -> std::result::Result<Engine<F>, Unopened<F>>
    where
        requires { F.asked files
            ≡ found_asks (map file_shown append.items) (map file_shown rewrite.items) }
        ensures ok { IfOk result (IsOpened version (map file_shown append.items)
            (map file_shown rewrite.items)) }
        ensures accepted { OnOk result (AreBothAccepted TolerateTornTail version (map file_shown append.items)
            (map file_shown rewrite.items)) }
        ensures err { IfErr result (λ unopened. IsUnopened (AreUnrecoveredAs version workers) F.may_fail TolerateTornTail version
            (map file_shown append.items) (map file_shown rewrite.items) (F.asked unopened.files) unopened.error) }
    {
        match Engine::open_telling(
            rt,
            alloc,
            RecoveryMode::TolerateTornTail,
            version,
            files,
            append,
            rewrite,
            workers,
        ) {
            Ok(opened) => Ok(opened.engine),
            Err(unopened) => Err(unopened),
        }
    }

    /// Opens the files that a crash left in the given `mode`, as [`Engine::open`] does in the mode `TolerateTornTail`. Returns
    /// with the engine what was cut off each queue's last file, with the reason why no batch can be read there, and which
    /// batches of the last append file have damaged entries; these entries are refused when they are read.
    ///
    /// # Errors
    ///
    /// Those of [`Engine::open`]. But a queue's last file that can't be read to its end is always refused in the mode
    /// `AbsoluteConsistency`, and never for that in the mode `TolerateTailCorruption`. A batch of the last rewrite file with
    /// damaged entries is refused in each mode.
    pub fn open_telling<R: Threads + Sync>(
        rt: &R,
        alloc: Global,
        mode: RecoveryMode,
        version: Version,
        files: F,
        append: Vec<(FileSeq, Vec<u8>)>,
        rewrite: Vec<(FileSeq, Vec<u8>)>,
        workers: usize,
    ) -> std::result::Result<Opened<F>, Unopened<F>>
    where
        requires { F.asked files
            ≡ found_asks (map file_shown append.items) (map file_shown rewrite.items) }
        ensures ok { IfOk result (λ opened. IsOpened version (map file_shown append.items)
            (map file_shown rewrite.items) opened.engine) }
        ensures recovered { IfOk result (λ opened. IsRecoveredOf version (map file_shown append.items)
            (map file_shown rewrite.items) opened.recovered) }
        ensures damaged { IfOk result (λ opened. AreDamagedTold version (map file_shown append.items) opened.damaged.items) }
        ensures accepted { OnOk result (AreBothAccepted mode version (map file_shown append.items)
            (map file_shown rewrite.items)) }
        ensures err { IfErr result (λ unopened. IsUnopened (AreUnrecoveredAs version workers) F.may_fail mode version
            (map file_shown append.items) (map file_shown rewrite.items) (F.asked unopened.files) unopened.error) }
    {
        match read_found_files(rt, alloc, mode, version, append, rewrite, workers) {
            Ok(read) => Engine::of_reading(version, files, read.reading, read.damaged),
            Err(error) => Err(Unopened { files, error }),
        }
    }

    /// Asks of found files what their `reading` says is missing, and makes an engine over them, with the tables that were
    /// read. Returns it with what was cut off, and with `damaged`, unchanged.
    ///
    /// # Errors
    ///
    /// Those of `EngineFiles`. The files are handed back: some of it was asked then, and whatever is left of the files has the
    /// records that were found.
    #[doc(hidden)]
    pub fn of_reading(
        version: Version,
        files: F,
        reading: Reading,
        damaged: Vec<DamagedBatch>,
    ) -> std::result::Result<Opened<F>, Unopened<F>>
        requires to_be_told { IsToBeTold reading }
        requires found { (append : List NumberedBytes) × (rewrite : List NumberedBytes)
            × (F.asked files ≡ found_asks append rewrite) × AreReadFound version append rewrite reading }
        ensures ok { (append rewrite : List NumberedBytes) → F.asked files ≡ found_asks append rewrite
            → AreReadFound version append rewrite reading
            → IfOk result (λ opened. IsOpened version append rewrite opened.engine) }
        ensures recovered { (append rewrite : List NumberedBytes) → AreReadFound version append rewrite reading
            → IfOk result (λ opened. IsRecoveredOf version append rewrite opened.recovered) }
        ensures damaged { IfOk result (λ opened. opened.damaged.items ≡ damaged.items) }
        ensures err { (append rewrite : List NumberedBytes) → F.asked files ≡ found_asks append rewrite
            → AreReadFound version append rewrite reading
            → IfErr result (λ unopened. IsHalfOpened F.may_fail version append rewrite
            (F.asked unopened.files) unopened.error) }
    {
        found_files_are_stored();
        let (mut files, mut reading) = (files, reading);
        match ask_for_missing(&mut files, version, &mut reading) {
            Ok(()) => {
                reading.rewrite.len += reading.told_len as u64;
                let recovered = Recovered {
                    append: reading.append_missing.tail(),
                    rewrite: reading.rewrite_missing.tail(),
                };
                let engine = Engine {
                    files,
                    version,
                    append: reading.append,
                    rewrite: reading.rewrite,
                    untold: reading.untold,
                    accessor: reading.accessor,
                    intact: true,
                };
                Ok(Opened {
                    engine,
                    recovered,
                    damaged,
                })
            }
            Err(error) => Err(Unopened { files, error }),
        }
    }

    /// States what outlasts a crash at any moment, in the midst of a call too: the records of all batches that were synced by
    /// then, and those of a prefix of the batches since, each batch whole or not at all. The contents of entries are any that
    /// are told by what was asked of the files; a read of a damaged block, which is refused, tells none and costs nothing.
    /// This is a law: it computes nothing.
    pub fn nothing_synced_is_lost(&self)
        ensures { (content : EntryIndex → List ℕ) → AreBothTold self.now.asks content → IsLasting content self.now }
    {
        what_is_done_lasts();
        told_contents_last();
        nothing_is_lost();
        let _ = &self.accessor;
    }

    /// Returns the tables of all regions, with the cleaned regions and the live counts.
    pub fn accessor(&self) -> &MemTableAccessor
        ensures { result.now ≡ self.now.accessor }
    {
        &self.accessor
    }

    /// Returns the files of both queues.
    pub fn files(&self) -> &F
        ensures { F.asked result.now ≡ self.now.asks }
    {
        &self.files
    }

    /// Tests whether the engine takes further calls: no call of its files failed but reads and appends that they took back
    /// (outside of a group), and every batch whose bytes were put was applied to the tables.
    pub fn is_intact(&self) -> bool
        ensures { IsTrue result ↔ (self.now.intact ≡ true) }
    {
        self.intact
    }

    /// Returns the value of a region's key; `None` if the key has none.
    pub fn get(&self, region: u64, key: &[u8]) -> Option<&[u8]>
        ensures { option_map (λ v. v.now) result ≡ value_at (table_in self.now region).keys key.now }
    {
        self.accessor.get(region)?.get(key)
    }

    /// Returns the least index of a region's entries; `None` if it has none.
    pub fn first_index(&self, region: u64) -> Option<u64>
        ensures { MatchOption result ((table_in self.now region).entries ≡ [])
            (λ i. ((table_in self.now region).entries ≢ [])
            × (i ≡ start_of (table_in self.now region).entries)) }
    {
        self.accessor.get(region)?.first_index()
    }

    /// Returns the greatest index of a region's entries; `None` if it has none.
    pub fn last_index(&self, region: u64) -> Option<u64>
        ensures { MatchOption result ((table_in self.now region).entries ≡ [])
            (λ i. i + 1 ≡ end_of (table_in self.now region).entries) }
    {
        self.accessor.get(region)?.last_index()
    }

    /// Syncs the append queue: all that was written outlasts a crash then.
    ///
    /// # Errors
    ///
    /// `Failed` if the engine isn't intact; nothing is asked then. Those of `EngineFiles::sync`: the engine isn't intact any
    /// more, and asks nothing of its files again but reads.
    pub fn sync(&mut self) -> Result<()>
        ensures ok { OnOk result (self.new
            ≡ record self.old { asks = ask Append Sync ∷ self.old.asks }) }
        ensures accepted { OnOk result (self.old.intact ≡ true) }
        ensures err { IfErr result (IsUnsynced F.may_fail self.old self.new) }
    {
        asks_are_stored();
        if !self.intact {
            return Err(Error::Failed);
        }
        self.intact = false;
        self.files.sync(LogQueue::Append)?;
        self.intact = true;
        Ok(())
    }

    /// Syncs the append queue if `sync` is set; else does nothing.
    ///
    /// # Errors
    ///
    /// Those of [`Engine::sync`], only if `sync` is set.
    fn sync_if_wanted(&mut self, sync: bool) -> Result<()>
        ensures ok { OnOk result (IsOnlySynced sync self.old self.new) }
        ensures err { IfErr result (IsUnsynced F.may_fail self.old self.new) }
        ensures wanted { OnErr result (sync ≡ true) }
    {
        if sync {
            return self.sync();
        }
        Ok(())
    }

    /// Syncs the append queue, and begins a new file in it, to which the next batch goes.
    ///
    /// # Errors
    ///
    /// `Failed` if the engine isn't intact, `Full` if the last file has the greatest number, `Memory`: the engine is unchanged
    /// then. Those of `EngineFiles::sync` and `EngineFiles::rotate`: the engine isn't intact any more.
    pub fn rotate(&mut self) -> Result<()>
        ensures ok { OnOk result (IsRotated self.old self.new) }
        ensures accepted { OnOk result (self.old.intact ≡ true) }
        ensures err { IfErr result (IsUnrotated F.may_fail self.old self.new) }
    {
        asks_are_stored();
        if !self.intact {
            return Err(Error::Failed);
        }
        self.append.close_last()?;
        self.intact = false;
        self.append.begin_next(&mut self.files, LogQueue::Append)?;
        self.intact = true;
        Ok(())
    }

    /// Writes a batch: its bytes after those of the last append file, and its items with their places to the tables. With `sync`
    /// all that was written is synced once the call returns `Ok`. The batch is empty and open then. A batch without items is
    /// only synced, if that is wanted. A batch that the tables would refuse isn't written. The batch may be open, or one whose
    /// bytes are made already, as those of a batch that an earlier call took back.
    ///
    /// # Errors
    ///
    /// - `Failed` if the engine isn't intact; `Corruption` if the tables would refuse an item, which the text names; `Full` if
    ///   the batch has 2^56 bytes or more, or its file more than 2^63; `Memory`. The engine and the batch are unchanged then.
    /// - Those of `EngineFiles::append`, since the disk is full for instance, where it takes back what it wrote. The engine is
    ///   unchanged then, and intact. The batch has its items and their entries; it takes no more, but may be written again by
    ///   this call, or emptied by `drain`. Where an append was taken back for want of memory, `is_open` of the batch tells this
    ///   `Memory` from the one before, which leaves an open batch open.
    /// - Any other of `EngineFiles`. The engine isn't intact any more, and the tables are unchanged.
    /// - Once all was asked: `Memory`, or `Full` if the live records of the append queue and those that the next item names
    ///   are 2^64 or more together. The engine isn't intact any more, and the tables have the first ones of the items, or all
    ///   of them.
    ///
    /// After the last two the batch may have lost items.
    pub fn write(&mut self, batch: &mut LogBatch, sync: bool) -> Result<()>
        ensures ok { OnOk result ((batch.old.items ≡ []) × IsOnlySynced sync self.old self.new
            ⊎ IsOneMore sync batch.old self.old self.new) }
        ensures emptied { OnOk result (batch.new ≡ empty_batch) }
        ensures accepted { OnOk result (self.old.intact ≡ true) }
        ensures tested { OnOk result
            (AreAcceptedOncePlaced self.old.accessor.tables batch.old.items) }
        ensures err { IfErr result
            (IsUnwritten F.may_fail sync batch.old batch.new self.old self.new) }
    {
        asks_are_stored();
        asks_put_batches();
        told_items_take_away_the_same();
        batches_are_read_back();
        batch.is_read_again();
        if !self.intact {
            return Err(Error::Failed);
        }
        if batch.is_empty() {
            let _none = batch.drain();
            return self.sync_if_wanted(sync);
        }
        self.accessor.check_append_writes(batch.items())?;
        if self.append.len > LAST_OFFSET {
            return Err(Error::Full);
        }
        let mut taken = removals_by_items(self.append.allocator(), &self.accessor, batch.items())?;
        let len = make_bytes(batch)?;
        let file = LogFileContext::new(
            FileId::new(LogQueue::Append, self.append.seq),
            self.version,
        );
        try_put(
            &mut self.files,
            &file,
            self.append.len,
            batch,
            len,
            &mut self.intact,
        )?;
        self.intact = false;
        sync_append_if(&mut self.files, sync)?;
        apply_batch(&mut self.accessor, batch)?;
        self.untold.merge(&mut taken)?;
        self.append.len += len as u64;
        self.intact = true;
        Ok(())
    }

    /// Deletes the append files that no table needs, the oldest first, but never the last one. Returns how many were deleted.
    /// Before that it syncs the append queue, writes to the rewrite queue what batches took away and isn't there yet, and
    /// syncs that queue too. If there is no such file nothing is asked.
    ///
    /// # Errors
    ///
    /// `Failed` if the engine isn't intact; `Full` if there is such a file, and what has to be written has 2^56 bytes or more,
    /// or the last rewrite file more than 2^63; `Memory`. The engine is unchanged then. Those of `EngineFiles`, if there is
    /// such a file: of an append that is taken back, as on a full disk, once the append queue is synced, and nothing else is
    /// changed; any other, and the engine isn't intact any more.
    pub fn purge_expired_files(&mut self) -> Result<usize>
        ensures ok { IfOk result (λ count. ArePurged count self.old self.new) }
        ensures accepted { OnOk result (self.old.intact ≡ true) }
        ensures err { IfErr result (IsUnpurged F.may_fail self.old self.new) }
    {
        self.purge_queue(LogQueue::Append)
    }
}

/// Makes the bytes of a batch, unless they are made already, and returns their number.
///
/// # Errors
///
/// `Full` if there would be 2^56 bytes or more; `Memory`. The batch is unchanged then.
fn make_bytes(batch: &mut LogBatch) -> Result<usize>
    ensures ok { OnOk result (batch.new ≡ record batch.old { stage = batch.new.stage }) }
    ensures made { OnOk result (batch.new.stage ≢ is_open) }
    ensures len { IfOk result (λ len. len ≡ encoded_length batch.old.items batch.old.entry_bytes) }
    ensures accepted { OnOk result (encoded_length batch.old.items batch.old.entry_bytes < 2 ^ 56) }
    ensures err { OnErr result (batch.new ≡ batch.old) }
    ensures fault { IfErr result (λ e. e ≢ Error.Memory
        → (e ≡ Error.Full) × (2 ^ 56 ≤ encoded_length batch.old.items batch.old.entry_bytes)) }
{
    if batch.is_open() {
        return batch.finish_populate();
    }
    batch.is_read_again();
    Ok(batch.approximate_size())
}

/// Writes the items of a batch to the tables, in order, which empties the batch.
///
/// # Errors
///
/// Those of `apply_append_writes`; only `Memory` and `Full` if the tables accept the items. The first ones of the items are
/// written then, and the batch is empty too.
fn apply_batch(accessor: &mut MemTableAccessor, batch: &mut LogBatch) -> Result<()>
    ensures ok { OnOk result (AreWritten Appending batch.old.items accessor.old accessor.new) }
    ensures room { AreAccepted accessor.old.tables batch.old.items → IfErr result LacksRoom }
    ensures fault { IfErr result
        (IsNextRefused Appending batch.old.items accessor.old accessor.new) }
    ensures emptied { batch.new ≡ empty_batch }
{
    accepted_items_lack_room_alone();
    accessor.apply_append_writes(batch.drain())
}
