//! Times the calls of tables of regions.

ghost use Rattle.raft_memtable.specs.Table.{IsCounted};

use crate::key_values::{time_key_reads, time_puts};
use crate::timing::{Noise, best_times, print_time_per_unit, time_work};
use raft_memtable::{
    AllocResult, Block, EntryIndex, FileBlockHandle, FileId, GlobalStats, LogQueue, MemTable,
    Result, is_run,
};
use std::alloc::Global;
use std::collections::VecDeque;
use std::io;

/// How many regions there are.
pub(crate) const REGIONS: u64 = 1_000;

/// How many entries a run has.
const RUN: u64 = 8;

/// How many entries a region has.
const ENTRIES: u64 = 100 * RUN;

/// How many entries one fetch returns.
const FETCH: u64 = 64;

/// How many entries one compaction drops.
const STEP: u64 = 32;

/// The file of the entries that are appended and the key values that are put.
pub(crate) const APPENDED: FileId = FileId {
    queue: LogQueue::Append,
    seq: 1,
};

/// The file to which entries are rewritten.
pub(crate) const REWRITTEN: FileId = FileId {
    queue: LogQueue::Rewrite,
    seq: 50,
};

/// The table of a region, and the live counts of its records alone.
#[derive(Drop)]
pub(crate) struct Region {
    table: MemTable,
    stats: GlobalStats,
    ghost counted: { IsCounted table stats },
}

/// A key and its value.
pub(crate) type Pair = (Vec<u8>, Vec<u8>);

impl Region {
    /// Returns the region `region_id`, without records.
    pub(crate) fn new(alloc: Global, region_id: u64) -> Region {
        Region {
            table: MemTable::new(alloc, region_id),
            stats: GlobalStats::default(),
        }
    }

    /// Appends `run` to the table. Does nothing if it isn't a run of the append queue.
    ///
    /// # Errors
    ///
    /// Those of [`MemTable::append`]. The table is unchanged then.
    pub(crate) fn append_run(&mut self, run: Vec<EntryIndex>) -> Result<()> {
        if is_run(&run, LogQueue::Append) {
            self.table.append(run, &mut self.stats)?;
        }
        Ok(())
    }

    /// Gives the entries that are in append file 1 the places of `run`. Does nothing if it isn't a run of the
    /// rewrite queue.
    ///
    /// # Errors
    ///
    /// Those of [`MemTable::rewrite`]. The table is unchanged then.
    pub(crate) fn rewrite_run(&mut self, run: Vec<EntryIndex>) -> Result<()> {
        if is_run(&run, LogQueue::Rewrite) {
            self.table.rewrite(run, Some(1), &mut self.stats)?;
        }
        Ok(())
    }

    /// Moves the records of `newer` into this table. Does nothing if they are of another region.
    ///
    /// # Errors
    ///
    /// Those of [`MemTable::merge_newer_neighbor`].
    pub(crate) fn merge_newer(&mut self, newer: Region) -> Result<()> {
        let mut table = newer.table;
        if self.table.region_id() == table.region_id() {
            self.table
                .merge_newer_neighbor(&mut table, &mut self.stats)?;
        }
        Ok(())
    }

    /// Returns the region's table.
    pub(crate) fn table(&self) -> &MemTable {
        &self.table
    }

    /// Returns the blocks of the region's table.
    pub(crate) fn blocks(&self) -> &VecDeque<Block> {
        self.table.blocks()
    }

    /// Drops the entries below `index`. Returns how many it dropped.
    fn compact_to(&mut self, index: u64) -> u64 {
        self.table.compact_to(index, &mut self.stats)
    }

    /// Puts the value of `pair` under its key, as a record of append file 1.
    ///
    /// # Errors
    ///
    /// Those of [`MemTable::put`]. The table is unchanged then.
    pub(crate) fn put_pair(&mut self, pair: Pair) -> Result<()> {
        self.table.put(pair.0, pair.1, APPENDED, &mut self.stats)
    }

    /// Deletes `key` with its value, if it is there.
    pub(crate) fn delete_key(&mut self, key: &[u8]) {
        self.table.delete(key, &mut self.stats);
    }
}

/// Times each call of a table that a log store makes often, and prints a line for each.
///
/// # Errors
///
/// Those of the clock and of the output; lack of memory.
pub(crate) fn time_tables(rt: &HostRuntime) -> io::Result<()> {
    time_appends_in_turn(rt)?;
    time_compact_to(rt)?;
    time_reads(rt)?;
    time_table_rewrites(rt)?;
    time_puts(rt)?;
    time_key_reads(rt)
}

/// Returns a run of `len` entries, whose indexes rise from `first` on, in one block of the file `id`.
///
/// # Errors
///
/// `AllocError` if there is no memory.
pub(crate) fn new_run(
    alloc: Global,
    first: u64,
    len: u64,
    id: FileId,
) -> AllocResult<Vec<EntryIndex>> {
    let mut run = Vec::with_capacity(alloc, len as usize)?;
    for index in first..first.saturating_add(len) {
        run.push(EntryIndex {
            index,
            entries: Some(FileBlockHandle {
                id,
                offset: first,
                len: 2052,
            }),
            entry_len: 256,
            ..EntryIndex::default()
        })?;
    }
    Ok(run)
}

/// Returns 1,000 regions without records, with the ids from 0 on.
///
/// # Errors
///
/// `AllocError` if there is no memory.
pub(crate) fn new_empty_regions(alloc: Global) -> AllocResult<Vec<Region>> {
    let mut regions = Vec::new(alloc);
    for id in 0..REGIONS {
        regions.push(Region::new(alloc, id))?;
    }
    Ok(regions)
}

/// Returns runs of `len` entries in `file`, one for each of `regions` regions in turn, and so on until each
/// region has `entries` entries. The runs of a region follow one another from index 1 on.
///
/// # Errors
///
/// `AllocError` if there is no memory.
pub(crate) fn new_runs_in_turn(
    alloc: Global,
    regions: u64,
    entries: u64,
    len: u64,
    file: FileId,
) -> AllocResult<Vec<Vec<EntryIndex>>> {
    let mut runs = Vec::new(alloc);
    let mut first = 1u64;
    for _ in 0..entries / len.max(1) {
        for _ in 0..regions {
            runs.push(new_run(alloc, first, len, file)?)?;
        }
        first = first.saturating_add(len);
    }
    Ok(runs)
}

/// Appends each of `runs` to the one of `regions` whose turn it is. This is the work that is timed. Returns
/// how many were accepted.
pub(crate) fn append_all_runs(regions: &mut Vec<Region>, runs: Vec<Vec<EntryIndex>>) -> u64 {
    let mut turn = 0;
    let mut accepted = 0u64;
    for run in runs {
        if turn == regions.len() {
            turn = 0;
        }
        if let Some(region) = regions.get_mut(turn)
            && region.append_run(run).is_ok()
        {
            accepted = accepted.saturating_add(1);
        }
        turn = turn.saturating_add(1);
    }
    accepted
}

/// Returns runs of 8 entries for all regions in turn, until each region has 800 entries.
///
/// # Errors
///
/// `AllocError` if there is no memory.
fn new_runs_for_all_regions(alloc: Global) -> AllocResult<Vec<Vec<EntryIndex>>> {
    new_runs_in_turn(alloc, REGIONS, ENTRIES, RUN, APPENDED)
}

/// Returns 1,000 regions, each with 800 entries.
///
/// # Errors
///
/// `AllocError` if there is no memory.
fn new_filled_regions(alloc: Global) -> AllocResult<Vec<Region>> {
    let mut regions = new_empty_regions(alloc)?;
    append_all_runs(&mut regions, new_runs_for_all_regions(alloc)?);
    Ok(regions)
}

/// Times appends of runs to all regions in turn, and prints a line.
///
/// # Errors
///
/// Those of the clock and of the output; lack of memory.
fn time_appends_in_turn(rt: &HostRuntime) -> io::Result<()> {
    let (best, _) = best_times(|| {
        let mut regions = new_empty_regions(rt.alloc())?;
        let runs = new_runs_for_all_regions(rt.alloc())?;
        time_work(rt, || append_all_runs(&mut regions, runs))
    })?;
    print_time_per_unit(
        rt,
        "append, 8 entries a call",
        best,
        "entry",
        REGIONS * ENTRIES,
    )
}

/// Compacts each of `regions` to `index`. Returns how many entries were dropped in all.
fn compact_each_region(regions: &mut Vec<Region>, index: u64) -> u64 {
    let mut dropped = 0u64;
    for region in regions.iter_mut() {
        dropped = dropped.saturating_add(region.compact_to(index));
    }
    dropped
}

/// Compacts all `regions`, 32 entries at a time, until none are left. This is the work that is timed. Returns
/// how many entries were dropped in all.
fn compact_regions_by_steps(regions: &mut Vec<Region>) -> u64 {
    let mut dropped = 0u64;
    for step in 1..=ENTRIES / STEP {
        dropped = dropped.saturating_add(compact_each_region(regions, 1 + step * STEP));
    }
    dropped
}

/// Times compactions of all regions, 32 entries a call, and prints a line.
///
/// # Errors
///
/// Those of the clock and of the output; lack of memory.
fn time_compact_to(rt: &HostRuntime) -> io::Result<()> {
    let (best, dropped) = best_times(|| {
        let mut regions = new_filled_regions(rt.alloc())?;
        time_work(rt, || compact_regions_by_steps(&mut regions))
    })?;
    print_time_per_unit(
        rt,
        "compact_to, 32 entries a call",
        best,
        "call",
        dropped / STEP,
    )
}

/// Returns `count` places in regions, picked without a pattern by `noise`: the number of a region, and an
/// index from which on it has at least `behind` entries.
///
/// # Errors
///
/// `AllocError` if there is no memory.
fn pick_places(
    alloc: Global,
    noise: &mut Noise,
    count: u64,
    behind: u64,
) -> AllocResult<Vec<(usize, u64)>> {
    let mut picks = Vec::new(alloc);
    for _ in 0..count {
        let region = (noise.next_u64() % REGIONS) as usize;
        let first = ENTRIES.saturating_sub(behind).max(1);
        picks.push((region, 1 + noise.next_u64() % first))?;
    }
    Ok(picks)
}

/// Looks up the entries at the places `picks`, each a number of a region and an index, and returns how many
/// there are. This is the work that is timed.
pub(crate) fn count_found_entries(regions: &[Region], picks: &[(usize, u64)]) -> u64 {
    let mut count = 0u64;
    for (region, index) in picks {
        if let Some(region) = regions.get(*region)
            && region.table.get_entry(*index).is_some()
        {
            count = count.saturating_add(1);
        }
    }
    count
}

/// Fetches 64 entries from each of the places `picks` on, each a number of a region and an index, and returns
/// how many came. This is the work that is timed. `entries` is the memory for one fetch.
fn count_fetched_entries(
    regions: &[Region],
    picks: &[(usize, u64)],
    entries: &mut Vec<EntryIndex>,
) -> u64 {
    let mut count = 0u64;
    for (region, index) in picks {
        entries.clear();
        if let Some(region) = regions.get(*region) {
            let end = index.saturating_add(FETCH);
            if region
                .table
                .fetch_entries_to(*index, end, None, entries)
                .is_ok()
            {
                count = count.saturating_add(entries.len() as u64);
            }
        }
    }
    count
}

/// Times look-ups and fetches of entries at places without a pattern, and prints a line for each.
///
/// # Errors
///
/// Those of the clock and of the output; lack of memory.
fn time_reads(rt: &HostRuntime) -> io::Result<()> {
    let regions = new_filled_regions(rt.alloc())?;
    let mut noise = Noise::new();
    let entries = pick_places(rt.alloc(), &mut noise, REGIONS * ENTRIES, 0)?;
    let fetches = pick_places(rt.alloc(), &mut noise, REGIONS * ENTRIES / FETCH, FETCH)?;
    time_lookups(
        rt,
        regions.as_slice(),
        entries.as_slice(),
        fetches.as_slice(),
    )
}

/// Times look-ups of the entries at the places `entries` and fetches from the places `fetches` on, in turn,
/// and prints a line for each.
///
/// # Errors
///
/// Those of the clock and of the output; lack of memory.
fn time_lookups(
    rt: &HostRuntime,
    regions: &[Region],
    entries: &[(usize, u64)],
    fetches: &[(usize, u64)],
) -> io::Result<()> {
    let mut out = Vec::with_capacity(rt.alloc(), FETCH as usize)?;
    let ([get, fetch], (got, given)) = best_times(|| -> io::Result<_> {
        let (get, got) = time_work(rt, || count_found_entries(regions, entries))?;
        let (fetch, given) = time_work(rt, || count_fetched_entries(regions, fetches, &mut out))?;
        Ok(([get, fetch], (got, given)))
    })?;
    print_time_per_unit(rt, "get_entry, at random", get, "call", got)?;
    print_time_per_unit(rt, "fetch_entries_to, 64 a call", fetch, "entry", given)
}

/// Rewrites all entries of each of `regions`, to the places of the run at the same position in `runs`. This
/// is the work that is timed. It ends at a refusal.
fn rewrite_all_regions(regions: &mut Vec<Region>, runs: Vec<Vec<EntryIndex>>) {
    for (region, run) in regions.iter_mut().zip(runs) {
        if region.rewrite_run(run).is_err() {
            return;
        }
    }
}

/// Times rewritings of whole tables, and prints a line.
///
/// # Errors
///
/// Those of the clock and of the output; lack of memory.
fn time_table_rewrites(rt: &HostRuntime) -> io::Result<()> {
    let (best, ()) = best_times(|| {
        let mut regions = new_filled_regions(rt.alloc())?;
        let runs = new_runs_in_turn(rt.alloc(), REGIONS, ENTRIES, ENTRIES, REWRITTEN)?;
        time_work(rt, || rewrite_all_regions(&mut regions, runs))
    })?;
    print_time_per_unit(
        rt,
        "rewrite, whole tables",
        best,
        "entry",
        REGIONS * ENTRIES,
    )
}
