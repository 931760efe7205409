//! Times tables with long and with short blocks (entries at one place), and counts the bytes that they take.

use crate::tables::{
    APPENDED, REGIONS, REWRITTEN, Region, append_all_runs, count_found_entries, new_empty_regions,
    new_run, new_runs_in_turn,
};
use crate::timing::{Noise, best_times, print_time_per_unit, time_work};
use raft_memtable::{AllocResult, Block, EntryIndex};
use std::alloc::Global;
use std::io;
use std::mem::size_of;

/// How many entries a region has.
const ENTRIES: u64 = 2_048;

/// How many blocks a table of many blocks has.
const BLOCKS: u64 = 1_000;

/// How many entries each of those blocks has.
const SPANS: u64 = 8;

/// How many pairs of such tables are merged.
const PAIRS: u64 = 200;

/// How many entries are looked up.
const LOOKUPS: u64 = 1_000_000;

/// How many entries a rewriting of a part of a table moves.
const STEP: u64 = 64;

/// Times tables of long blocks and of short ones, and prints a line for each work.
///
/// # Errors
///
/// Those of the clock and of the output; lack of memory.
pub(crate) fn time_blocks(rt: &HostRuntime) -> io::Result<()> {
    for &len in &[64, 8, 1] {
        time_appends(rt, len)?;
    }
    time_entry_lookups(rt)?;
    time_rewrites_of_many_blocks(rt)?;
    time_merges_of_many_blocks(rt)
}

/// Returns how many bytes are allocated for the blocks of `region`, with their first indexes and the spans of
/// their entries.
fn allocated_block_bytes(region: &Region) -> usize {
    let blocks = region.blocks();
    let each = size_of::<Block>() + size_of::<u64>();
    let mut bytes = blocks.capacity().saturating_mul(each);
    for block in blocks {
        let spans = block
            .spans
            .capacity()
            .saturating_mul(size_of::<(u32, u32)>());
        bytes = bytes.saturating_add(spans);
    }
    bytes
}

/// Times appends of runs of `len` entries, each a block of its own, and prints how many bytes are kept for an
/// entry and how long an entry takes.
///
/// # Errors
///
/// Those of the clock and of the output; lack of memory.
fn time_appends(rt: &HostRuntime, len: u64) -> io::Result<()> {
    let (best, bytes) = best_times(|| append_runs(rt, len))?;
    let entries = REGIONS * ENTRIES;
    println!(rt;
        "2,048,000 entries, {len} a call, {len} a block: {} bytes an entry",
        bytes as u64 / entries
    )?;
    print_time_per_unit(rt, "append", best, "entry", entries)
}

/// Appends runs of `len` entries to regions without records. Returns how many nanoseconds that takes, and how
/// many bytes are then kept for blocks.
///
/// # Errors
///
/// Those of the clock; lack of memory.
fn append_runs(rt: &HostRuntime, len: u64) -> io::Result<(u64, usize)> {
    let mut regions = new_empty_regions(rt.alloc())?;
    let runs = new_runs_in_turn(rt.alloc(), REGIONS, ENTRIES, len, APPENDED)?;
    let (taken, _) = time_work(rt, || append_all_runs(&mut regions, runs))?;
    let mut bytes = 0usize;
    for region in &regions {
        bytes = bytes.saturating_add(allocated_block_bytes(region));
    }
    Ok((taken, bytes))
}

/// Returns a table of 1,000 blocks of 8 entries, whose indexes rise from `first` on. If a run is refused, the
/// table has only those before it.
///
/// # Errors
///
/// `AllocError` if there is no memory.
fn new_table_of_many_blocks(alloc: Global, first: u64) -> AllocResult<Region> {
    let mut region = Region::new(alloc, 1);
    let mut next = first;
    for _ in 0..BLOCKS {
        let run = new_run(alloc, next, SPANS, APPENDED)?;
        if region.append_run(run).is_err() {
            return Ok(region);
        }
        next = next.saturating_add(SPANS);
    }
    Ok(region)
}

/// Times look-ups of entries in one table of many blocks, and prints a line.
///
/// # Errors
///
/// Those of the clock and of the output; lack of memory.
fn time_entry_lookups(rt: &HostRuntime) -> io::Result<()> {
    let mut regions = Vec::new(rt.alloc());
    regions.push(new_table_of_many_blocks(rt.alloc(), 1)?)?;
    let mut noise = Noise::new();
    let mut picks = Vec::new(rt.alloc());
    for _ in 0..LOOKUPS {
        picks.push((0usize, 1 + noise.next_u64() % (BLOCKS * SPANS)))?;
    }
    let (best, got) = best_times(|| time_work(
        rt,
        || count_found_entries(regions.as_slice(), picks.as_slice()),
    ))?;
    print_time_per_unit(
        rt,
        "get_entry, one table of 1,000 blocks",
        best,
        "call",
        got,
    )
}

/// Rewrites `region`, a table of many blocks, from its first entry on, by one call for each of `runs`. This
/// is the work that is timed. It ends at a refusal.
fn rewrite_run_by_run(region: &mut Region, runs: Vec<Vec<EntryIndex>>) {
    for run in runs {
        if region.rewrite_run(run).is_err() {
            return;
        }
    }
}

/// Times rewritings of one table of many blocks, 64 entries a call, and prints a line.
///
/// # Errors
///
/// Those of the clock and of the output; lack of memory.
fn time_rewrites_of_many_blocks(rt: &HostRuntime) -> io::Result<()> {
    let (best, ()) = best_times(|| {
        let mut region = new_table_of_many_blocks(rt.alloc(), 1)?;
        let runs = new_runs_in_turn(rt.alloc(), 1, BLOCKS * SPANS, STEP, REWRITTEN)?;
        time_work(rt, || rewrite_run_by_run(&mut region, runs))
    })?;
    print_time_per_unit(
        rt,
        "rewrite, 64 entries a call, one table of 1,000 blocks",
        best,
        "entry",
        BLOCKS * SPANS,
    )
}

/// Returns 200 tables of 1,000 blocks each, whose indexes rise from `first` on.
///
/// # Errors
///
/// `AllocError` if there is no memory.
fn new_tables_of_many_blocks(alloc: Global, first: u64) -> AllocResult<Vec<Region>> {
    let mut regions = Vec::new(alloc);
    for _ in 0..PAIRS {
        regions.push(new_table_of_many_blocks(alloc, first)?)?;
    }
    Ok(regions)
}

/// Merges each of the `newer` tables into the `older` one at the same position. This is the work that is
/// timed. It ends at a refusal.
fn merge_all_regions(older: &mut Vec<Region>, newer: Vec<Region>) {
    for (older, newer) in older.iter_mut().zip(newer) {
        if older.merge_newer(newer).is_err() {
            return;
        }
    }
}

/// Times merges of tables of many blocks with their newer neighbors, and prints a line.
///
/// # Errors
///
/// Those of the clock and of the output; lack of memory.
fn time_merges_of_many_blocks(rt: &HostRuntime) -> io::Result<()> {
    let (best, ()) = best_times(|| {
        let mut older = new_tables_of_many_blocks(rt.alloc(), 1)?;
        let newer = new_tables_of_many_blocks(rt.alloc(), 1 + BLOCKS * SPANS)?;
        time_work(rt, || merge_all_regions(&mut older, newer))
    })?;
    print_time_per_unit(
        rt,
        "merge_newer_neighbor, two tables of 1,000 blocks",
        best,
        "call",
        PAIRS,
    )
}
