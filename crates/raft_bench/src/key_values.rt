//! Times the calls of a table that change and read its key values.

use crate::tables::{Pair, Region};
use crate::timing::{Noise, best_times, print_time_per_unit, time_work};
use raft_memtable::{AllocResult, MemTable};
use std::alloc::Global;
use std::io;

/// How many keys a table has.
const KEYS: usize = 100_000;

/// Returns 100,000 keys of 8 bytes, without a pattern, each with a value of 32 bytes. Each call returns the
/// same ones.
///
/// # Errors
///
/// `AllocError` if there is no memory.
fn make_pairs(alloc: Global) -> AllocResult<Vec<Pair>> {
    let mut noise = Noise::new();
    let mut pairs = Vec::new(alloc);
    for _ in 0..KEYS {
        let key = Vec::from_slice(alloc, &noise.next_u64().to_be_bytes())?;
        pairs.push((key, Vec::from_slice(alloc, &[7u8; 32])?))?;
    }
    Ok(pairs)
}

/// Puts each of `pairs` into the table of `region`, up to the first one that is refused. This is the work
/// that is timed.
fn put_all_pairs(region: &mut Region, pairs: Vec<Pair>) {
    for pair in pairs {
        if region.put_pair(pair).is_err() {
            return;
        }
    }
}

/// Deletes the key of each of `pairs` from the table of `region`. This is the work that is timed.
fn delete_all_pairs(region: &mut Region, pairs: &[Pair]) {
    for (key, _) in pairs {
        region.delete_key(key);
    }
}

/// Puts all pairs into a new table, puts them once more, and deletes them. Returns how many nanoseconds each
/// of the three takes.
///
/// # Errors
///
/// Those of the clock; lack of memory.
fn time_key_changes(rt: &HostRuntime) -> io::Result<([u64; 3], ())> {
    let mut region = Region::new(rt.alloc(), 1);
    let new = time_pair_puts(rt, &mut region)?;
    let old = time_pair_puts(rt, &mut region)?;
    Ok(([new, old, time_pair_deletes(rt, &mut region)?], ()))
}

/// Puts all pairs into the table of `region`. Returns how many nanoseconds that takes.
///
/// # Errors
///
/// Those of the clock; lack of memory.
fn time_pair_puts(rt: &HostRuntime, region: &mut Region) -> io::Result<u64> {
    let pairs = make_pairs(rt.alloc())?;
    let (taken, ()) = time_work(rt, || put_all_pairs(region, pairs))?;
    Ok(taken)
}

/// Deletes the keys of all pairs from the table of `region`. Returns how many nanoseconds that takes.
///
/// # Errors
///
/// Those of the clock; lack of memory.
fn time_pair_deletes(rt: &HostRuntime, region: &mut Region) -> io::Result<u64> {
    let pairs = make_pairs(rt.alloc())?;
    let (taken, ()) = time_work(rt, || delete_all_pairs(region, pairs.as_slice()))?;
    Ok(taken)
}

/// Times puts of new keys, puts of keys that are there, and deletions, and prints a line for each.
///
/// # Errors
///
/// Those of the clock and of the output; lack of memory.
pub(crate) fn time_puts(rt: &HostRuntime) -> io::Result<()> {
    let ([new, old, delete], ()) = best_times(|| time_key_changes(rt))?;
    print_time_per_unit(rt, "put, new keys, one table", new, "call", KEYS as u64)?;
    print_time_per_unit(rt, "put, keys that stand", old, "call", KEYS as u64)?;
    print_time_per_unit(rt, "delete", delete, "call", KEYS as u64)
}

/// Looks up the values of the keys of `pairs` in `table`, and returns how many bytes they have. This is the
/// work that is timed.
fn count_value_bytes(table: &MemTable, pairs: &[Pair]) -> usize {
    let mut bytes = 0usize;
    for (key, _) in pairs {
        bytes = bytes.saturating_add(table.get(key).map_or(0, |value| value.len()));
    }
    bytes
}

/// Scans `table`, and returns how many bytes its keys and values have, or 0 if the scan is refused. This is
/// the work that is timed.
fn count_scanned_bytes(table: &MemTable) -> usize {
    let mut bytes = 0usize;
    let scanned = table.scan(None, None, false, |key, value| {
        bytes = bytes.saturating_add(key.len()).saturating_add(value.len());
        true
    });
    match scanned {
        Ok(()) => bytes,
        Err(_) => 0,
    }
}

/// Times look-ups of keys and scans, in one table, and prints a line for each.
///
/// # Errors
///
/// Those of the clock and of the output; lack of memory.
pub(crate) fn time_key_reads(rt: &HostRuntime) -> io::Result<()> {
    let mut region = Region::new(rt.alloc(), 1);
    put_all_pairs(&mut region, make_pairs(rt.alloc())?);
    time_gets(rt, region.table())?;
    time_scans(rt, region.table())
}

/// Times look-ups of all keys of `table`, and prints a line.
///
/// # Errors
///
/// Those of the clock and of the output; lack of memory.
fn time_gets(rt: &HostRuntime, table: &MemTable) -> io::Result<()> {
    let keys = make_pairs(rt.alloc())?;
    let (best, got) = best_times(|| time_work(rt, || count_value_bytes(table, keys.as_slice())))?;
    print_time_per_unit(rt, "get", best, "call", (got / 32) as u64)
}

/// Times a scan of all key values of `table`, and prints a line.
///
/// # Errors
///
/// Those of the clock and of the output.
fn time_scans(rt: &HostRuntime, table: &MemTable) -> io::Result<()> {
    let (best, scanned) = best_times(|| time_work(rt, || count_scanned_bytes(table)))?;
    print_time_per_unit(rt, "scan", best, "pair", (scanned / 40) as u64)
}
