//! Exported calls that list the keys of a region with their values. A key with its value is a pair.

ghost use Rattle.std.specs.Prelude.{◌≡◌, IsTrue, Some, None, is_some, ℕ, List, filter, OnOk, IfOk, IfErr, IsPermutation, option_copied};
ghost use Rattle.raft_ffi.specs.Words.{Append, Rewrite, AreInKeyOrder, ArePairsIn, AreScanned, AreScannedIn, IsReadIfMemory, bound_in, is_below, is_between, moving_pairs, pairs_of_both, pairs_shown, pairs_up_to, table_in};

use crate::handles::{Engine, Handle, Tables, answer_with_value, unwrap_or_return, with_value};
use crate::status::{copy_front, memory_code};
use raft_accessor::MemTableAccessor;
use raft_base::{Error, Result};
use raft_engine::rewriting::pairs_to_move;
use std::alloc::Global;

/// Keys with their values.
type Pairs = Vec<(Vec<u8>, Vec<u8>)>;

/// Lists the pairs of a region that are in append files numbered at or below `gate`, in the order of the keys. `lens` gets the
/// length of each key and of its value in turn, and `bytes` their bytes, one after another, each as far as there is room.
/// `count` is set to how many lengths there are, and `len` to how many bytes, which may be more. With a gate of 2^64 - 1 it
/// lists all appended pairs. Returns 0, or 11 (`Memory`): nothing is set then.
#[unsafe(no_mangle)]
pub extern "C" fn raft_ffi_tables_pairs_before(
    alloc: Global,
    tables: &mut Tables,
    region: u64,
    gate: u64,
    lens: &mut [usize],
    count: &mut usize,
    bytes: &mut [u8],
    len: &mut usize,
) -> u32
    requires held { IsTrue (is_some tables.old.value) }
    ensures found { IsReadIfMemory result (λ a. ArePairsIn (pairs_up_to Append (Some gate) (table_in a.tables region).keys) lens.old
        lens.new count.new bytes.old bytes.new len.new) tables.old.value tables.new.value }
{
    let found = unwrap_or_return!(
        with_value!(held in tables, alloc; copy_moving_pairs(alloc, &*held, region, Some(gate)))
    );
    memory_code(&copy_pairs(alloc, &found, lens, count, bytes, len))
}

/// Lists the rewritten pairs of a region, in the order of the keys, in `lens` and `bytes` as [`raft_ffi_tables_pairs_before`]
/// does. Returns 0, or 11 (`Memory`): nothing is set then.
#[unsafe(no_mangle)]
pub extern "C" fn raft_ffi_tables_rewritten_pairs(
    alloc: Global,
    tables: &mut Tables,
    region: u64,
    lens: &mut [usize],
    count: &mut usize,
    bytes: &mut [u8],
    len: &mut usize,
) -> u32
    requires held { IsTrue (is_some tables.old.value) }
    ensures found { IsReadIfMemory result (λ a. ArePairsIn (pairs_up_to Rewrite None (table_in a.tables region).keys) lens.old
        lens.new count.new bytes.old bytes.new len.new) tables.old.value tables.new.value }
{
    let found = unwrap_or_return!(
        with_value!(held in tables, alloc; copy_moving_pairs(alloc, &*held, region, None))
    );
    memory_code(&copy_pairs(alloc, &found, lens, count, bytes, len))
}

/// Lists the pairs of a region whose key is at or above `start` and, with `is_bounded`, below `end`, in the order of the keys.
/// They are listed in `lens` and `bytes` as [`raft_ffi_tables_pairs_before`] does. Returns 0, or 11 (`Memory`): nothing is set
/// then.
#[unsafe(no_mangle)]
pub extern "C" fn raft_ffi_tables_scan(
    alloc: Global,
    tables: &mut Tables,
    region: u64,
    start: &[u8],
    end: &[u8],
    is_bounded: bool,
    lens: &mut [usize],
    count: &mut usize,
    bytes: &mut [u8],
    len: &mut usize,
) -> u32
    requires held { IsTrue (is_some tables.old.value) }
    ensures found { IsReadIfMemory result (λ a. AreScannedIn start.now (bound_in is_bounded end.now) (table_in a.tables region).keys
        lens.old lens.new count.new bytes.old bytes.new len.new) tables.old.value tables.new.value }
{
    let end = optional_bound(is_bounded, end);
    answer_with_value!(held in tables, alloc; scan_pairs(alloc, &*held, region, start, end, lens, count, bytes, len))
}

/// Lists the pairs of a region whose key is at or above `start` and, with `is_bounded`, below `end`, in the order of the keys.
/// They are listed in `lens` and `bytes` as [`raft_ffi_tables_pairs_before`] does. Returns 0, or 11 (`Memory`): nothing is set
/// then.
#[unsafe(no_mangle)]
pub extern "C" fn raft_ffi_engine_scan(
    alloc: Global,
    engine: &mut Engine,
    region: u64,
    start: &[u8],
    end: &[u8],
    is_bounded: bool,
    lens: &mut [usize],
    count: &mut usize,
    bytes: &mut [u8],
    len: &mut usize,
) -> u32
    requires held { IsTrue (is_some engine.old.value) }
    ensures found { IsReadIfMemory result (λ e. AreScannedIn start.now (bound_in is_bounded end.now) (table_in e.accessor.tables
        region).keys lens.old lens.new count.new bytes.old bytes.new len.new) engine.old.value engine.new.value }
{
    let end = optional_bound(is_bounded, end);
    answer_with_value!(held in engine, alloc; scan_pairs(alloc, held.engine.accessor(), region, start, end, lens, count, bytes, len))
}

/// Returns `key` as the bound of a scan, or `None` if `is_bounded` isn't set.
fn optional_bound(is_bounded: bool, key: &[u8]) -> Option<&[u8]>
    ensures { option_copied result ≡ bound_in is_bounded key.now }
{
    if is_bounded { Some(key) } else { None }
}

/// Lists in `lens` and `bytes` the pairs of a region whose key is at or above `start` and, with an `end`, below it, in the
/// order of the keys. Sets `count` and `len` to how many lengths and bytes there are.
///
/// # Errors
///
/// `Memory` alone. Nothing is listed then.
fn scan_pairs(
    alloc: Global,
    accessor: &MemTableAccessor,
    region: u64,
    start: &[u8],
    end: Option<&[u8]>,
    lens: &mut [usize],
    count: &mut usize,
    bytes: &mut [u8],
    len: &mut usize,
) -> Result<()>
    ensures ok { OnOk result (AreScannedIn start.now (option_copied end.entry) (table_in accessor.now.tables
        region).keys lens.old lens.new count.new bytes.old bytes.new len.new) }
    ensures memory { IfErr result (λ e. e ≡ Error.Memory) }
{
    let found = copy_pairs_between(alloc, accessor, region, start, end)?;
    copy_pairs(alloc, &found, lens, count, bytes, len)
}

/// Returns copies of the pairs of a region whose key is at or above `start` and, with an `end`, below it, in the order of the
/// keys.
///
/// # Errors
///
/// `Memory` alone.
fn copy_pairs_between(
    alloc: Global,
    accessor: &MemTableAccessor,
    region: u64,
    start: &[u8],
    end: Option<&[u8]>,
) -> Result<Pairs>
    ensures ok { IfOk result (λ v. AreScanned start.now (option_copied end.entry)
        (table_in accessor.now.tables region).keys (pairs_shown v.items)) }
    ensures memory { IfErr result (λ e. e ≡ Error.Memory) }
{
    let mut found = copy_pairs_of_both(alloc, accessor, region)?;
    keep_between(&mut found, start, end);
    sort_by_key(&mut found);
    Ok(found)
}

/// Returns copies of all pairs of a region: the appended ones, then the rewritten ones.
///
/// # Errors
///
/// `Memory` alone.
fn copy_pairs_of_both(alloc: Global, accessor: &MemTableAccessor, region: u64) -> Result<Pairs>
    ensures ok { IfOk result (λ v. pairs_shown v.items ≡ pairs_of_both (table_in accessor.now.tables region).keys) }
    ensures memory { IfErr result (λ e. e ≡ Error.Memory) }
{
    let mut found = copy_moving_pairs(alloc, accessor, region, Some(u64::MAX))?;
    let mut rewritten = copy_moving_pairs(alloc, accessor, region, None)?;
    found.append(&mut rewritten)?;
    Ok(found)
}

/// Returns copies of the pairs of a region that a move takes: with a gate those in append files numbered at or below it,
/// without one those that are rewritten already. A region without a table has none.
///
/// # Errors
///
/// `Memory` alone.
fn copy_moving_pairs(
    alloc: Global,
    accessor: &MemTableAccessor,
    region: u64,
    gate: Option<u64>,
) -> Result<Pairs>
    ensures ok { IfOk result (λ v. pairs_shown v.items ≡ moving_pairs gate (table_in accessor.now.tables region).keys) }
    ensures memory { IfErr result (λ e. e ≡ Error.Memory) }
{
    match accessor.get(region) {
        Some(table) => pairs_to_move(alloc, table, gate),
        None => Ok(Vec::new(alloc)),
    }
}

/// Drops the pairs whose key is below `start` or, with an `end`, not below it.
fn keep_between(pairs: &mut Pairs, start: &[u8], end: Option<&[u8]>)
    ensures { pairs_shown pairs.new.items ≡ filter (λ (p : List ℕ × List ℕ). is_between (Some start.now) (option_copied
        end.entry) p.0) (pairs_shown pairs.old.items) }
{
    pairs.retain(|pair| is_between(pair.0.as_slice(), start, end));
}

/// Tests whether a key is at or above `start` and, with an `end`, below it. Keys are compared byte by byte.
fn is_between(key: &[u8], start: &[u8], end: Option<&[u8]>) -> bool
    ensures { result ≡ is_between (Some start.now) (option_copied end.entry) key.now }
{
    start.cmp(key).is_le() && is_below(key, end)
}

/// Tests whether a key is below `end`; each key is, if there is none.
fn is_below(key: &[u8], end: Option<&[u8]>) -> bool
    ensures { result ≡ is_below (option_copied end.entry) key.now }
{
    match end {
        Some(end) => key.cmp(end).is_lt(),
        None => true,
    }
}

/// Sorts pairs by the bytes of their keys.
fn sort_by_key(pairs: &mut Pairs)
    ensures same { IsPermutation (pairs_shown pairs.old.items) (pairs_shown pairs.new.items) }
    ensures rising { AreInKeyOrder (pairs_shown pairs.new.items) }
{
    pairs.sort_unstable_by(|a, b| a.0.cmp(&b.0));
}

/// Copies the lengths of keys and values in turn into `lens`, and their bytes, one after another, into `bytes`, each as far as
/// there is room. Sets `count` and `len` to how many lengths and bytes there are.
///
/// # Errors
///
/// `Memory` alone. Nothing is copied then.
fn copy_pairs(
    alloc: Global,
    pairs: &[(Vec<u8>, Vec<u8>)],
    lens: &mut [usize],
    count: &mut usize,
    bytes: &mut [u8],
    len: &mut usize,
) -> Result<()>
    ensures ok { OnOk result (ArePairsIn (pairs_shown pairs.now) lens.old lens.new count.new bytes.old bytes.new len.new) }
    ensures memory { IfErr result (λ e. e ≡ Error.Memory) }
{
    let mut all_lens = Vec::new(alloc);
    let mut all_bytes = Vec::new(alloc);
    for pair in pairs {
        all_lens.push(pair.0.len())?;
        all_lens.push(pair.1.len())?;
        all_bytes.extend_from_slice(pair.0.as_slice())?;
        all_bytes.extend_from_slice(pair.1.as_slice())?;
    }
    *count = copy_front(all_lens.as_slice(), lens);
    *len = copy_front(all_bytes.as_slice(), bytes);
    Ok(())
}
