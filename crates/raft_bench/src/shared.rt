//! Times tables that several threads share.

use crate::tables::{APPENDED, new_run};
use crate::timing::{Noise, best_times, print_time_per_unit, time_work};
use raft_memtable::{AllocResult, MemTable, MemTableAccessor, Result, TableChange};
use raft_recover::SharedAccessor;
use std::alloc::Global;
use std::sync::Wait;
use std::thread;
use std::thread::Threads;
use std::time::Clock;

/// How many regions there are.
const REGIONS: u64 = 1_000;

/// How many runs are appended to each region.
const ROUNDS: u64 = 200;

/// How many entries a run has.
const RUN: u64 = 8;

/// How many tables are looked up.
const LOOKUPS: u64 = 1_000_000;

/// Times appends to shared tables by one, two and four threads, and look-ups in shared tables beside those in
/// an accessor. Prints a line for each.
///
/// # Errors
///
/// `Memory`; `Io` for the clock or the output; those of the tables.
pub(crate) fn time_shared_tables<R: Threads + Wait + Clock + Print + Sync>(
    rt: &R,
    alloc: Global,
) -> Result<()> {
    for &threads in &[1, 2, 4] {
        let (best, ()) = best_times(|| time_append_by_threads(rt, alloc, threads))?;
        let name = format!(in alloc;
            "append to shared tables by {threads} threads, 8 entries a call"
        )?;
        print_time_per_unit(rt, name.as_str(), best, "entry", REGIONS * ROUNDS * RUN)?;
    }
    time_table_lookups(rt, alloc)
}

/// Appends all runs to shared tables by `threads` threads, each to its part of the regions. Returns how many
/// nanoseconds that takes.
///
/// # Errors
///
/// `Memory`; `Io` for the clock; those of [`append_runs_of_thread`].
fn time_append_by_threads<R: Threads + Wait + Clock + Sync>(
    rt: &R,
    alloc: Global,
    threads: u64,
) -> Result<(u64, ())> {
    let shared = SharedAccessor::new(alloc);
    let append = |thread: usize| append_runs_of_thread(rt, alloc, &shared, thread as u64, threads);
    let (taken, all) = time_work(
        rt,
        || thread::map_indices(rt, alloc, threads as usize, &append),
    )?;
    for appended in all? {
        appended?;
    }
    Ok((taken, ()))
}

/// Appends all runs of the regions of one thread: those whose number leaves the remainder `thread` when it is
/// divided by `threads`.
///
/// # Errors
///
/// Those of [`SharedAccessor::change`]; `Memory`.
fn append_runs_of_thread<R: Wait>(
    rt: &R,
    alloc: Global,
    shared: &SharedAccessor,
    thread: u64,
    threads: u64,
) -> Result<()> {
    for number in 0..ROUNDS * REGIONS {
        let (round, region) = (number / REGIONS, number % REGIONS);
        if region % threads.max(1) == thread {
            let run = new_run(alloc, 1 + round * RUN, RUN, APPENDED)?;
            shared.change(rt, region, TableChange::Append(run))?;
        }
    }
    Ok(())
}

/// Returns the numbers of a million regions to look up, picked without a pattern.
///
/// # Errors
///
/// `AllocError` if there is no memory.
fn pick_regions(alloc: Global) -> AllocResult<Vec<u64>> {
    let mut noise = Noise::new();
    let mut picks = Vec::with_capacity(alloc, LOOKUPS as usize)?;
    for _ in 0..LOOKUPS {
        picks.push(noise.next_u64() % REGIONS)?;
    }
    Ok(picks)
}

/// Returns an accessor in which each region has one run.
///
/// # Errors
///
/// Those of [`MemTableAccessor::change`]; `Memory`.
fn new_filled_accessor(alloc: Global) -> Result<MemTableAccessor> {
    let mut core = MemTableAccessor::new(alloc)?;
    for region in 0..REGIONS {
        let run = new_run(alloc, 1, RUN, APPENDED)?;
        core.change(region, TableChange::Append(run))?;
    }
    Ok(core)
}

/// Returns shared tables in which each region has one run.
///
/// # Errors
///
/// Those of [`new_filled_accessor`]; `Memory`.
fn new_filled_shared_tables(alloc: Global) -> Result<SharedAccessor> {
    SharedAccessor::from_core(alloc, new_filled_accessor(alloc)?)
}

/// Looks up the regions `picks` in `core`, and returns the sum of their last indexes modulo 2^64. This is the
/// work that is timed.
fn sum_last_indexes(core: &MemTableAccessor, picks: &[u64]) -> u64 {
    let mut sum = 0u64;
    for region in picks {
        if let Some(last) = core.get(*region).and_then(|table| table.last_index()) {
            sum = sum.wrapping_add(last);
        }
    }
    sum
}

/// Looks up the regions `picks` in `shared`, and returns the sum of their last indexes modulo 2^64. This is
/// the work that is timed.
fn sum_shared_last_indexes<R: Wait>(rt: &R, shared: &SharedAccessor, picks: &[u64]) -> u64 {
    let mut sum = 0u64;
    for region in picks {
        let last = shared.with_table(rt, *region, |table: &MemTable| table.last_index());
        if let Some(Some(last)) = last {
            sum = sum.wrapping_add(last);
        }
    }
    sum
}

/// Times look-ups of tables in an accessor and in shared tables, and prints a line for each.
///
/// # Errors
///
/// `Memory`; `Io` for the clock or the output; those of the tables.
fn time_table_lookups<R: Wait + Clock + Print>(rt: &R, alloc: Global) -> Result<()> {
    let picks = pick_regions(alloc)?;
    time_table_lookups_in_turn(
        rt,
        &new_filled_accessor(alloc)?,
        &new_filled_shared_tables(alloc)?,
        picks.as_slice(),
    )
}

/// Times look-ups of the tables of the regions `picks` in `core` and in `shared`, in turn, and prints a line
/// for each.
///
/// # Errors
///
/// `Io` for the clock or the output.
fn time_table_lookups_in_turn<R: Wait + Clock + Print>(
    rt: &R,
    core: &MemTableAccessor,
    shared: &SharedAccessor,
    picks: &[u64],
) -> Result<()> {
    let ([get, with_table], (got, seen)) = best_times(|| -> Result<_> {
        let (get, got) = time_work(rt, || sum_last_indexes(core, picks))?;
        let (with_table, seen) = time_work(rt, || sum_shared_last_indexes(rt, shared, picks))?;
        Ok(([get, with_table], (got, seen)))
    })?;
    let looked = LOOKUPS.min(got).min(seen);
    print_time_per_unit(rt, "get of an accessor, at random", get, "call", looked)?;
    Ok(print_time_per_unit(rt, "with_table, at random", with_table, "call", looked)?)
}
