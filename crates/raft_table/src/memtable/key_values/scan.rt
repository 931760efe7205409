//! Scans of the key values between two keys.
//!
//! A scan looks its bounds up by copies of them. If there is no memory for a copy, it compares the bound with
//! each key instead, so that a scan can't fail.

ghost use Rattle.std.specs.Prelude.{◌≡◌, IsTrue, filter, map, reverse};
ghost use Rattle.raft_table.specs.Common.{option_copied, option_map, CalledAtTwo, is_between, is_forward, IsDivided, VisitsUntilFalse};

use super::StoredValue;
use std::alloc::{AllocError, Global};
use std::collections::BTreeMap;
use std::collections::btree_map::Range;

/// Returns `bound` in one of two forms, with `None` for the other one: as a copy, by which
/// [`pairs_in_range`] looks pairs up, or, if there is no memory for a copy, as it is, which
/// [`visit_forward`] compares with each key. Returns `None` for both if there is no bound.
pub(super) fn copy_or_keep_bound(
    alloc: Global,
    bound: Option<&[u8]>,
) -> (Option<Vec<u8>>, Option<&[u8]>)
    ensures { IsDivided (option_copied bound.entry) (option_map (λ k. k.items) result.0)
        (option_copied result.1) }
{
    let Some(key) = bound else {
        return (None, None);
    };
    match Vec::from_slice(alloc, key) {
        Ok(sought) => (Some(sought), None),
        Err(AllocError) => (None, bound),
    }
}

/// Returns the pairs whose key is at least `start` and below `end`, in the order of the keys. A bound that is
/// `None` doesn't limit its side. `start` must not be above `end`: the map refuses such a range.
pub(super) fn pairs_in_range<'a>(
    pairs: &'a BTreeMap<Vec<u8>, StoredValue>,
    start: &Option<Vec<u8>>,
    end: &Option<Vec<u8>>,
) -> Range<'a, Vec<u8>, StoredValue>
    requires { IsTrue (is_forward (option_map (λ k. k.items) start.now)
        (option_map (λ k. k.items) end.now)) }
    ensures { result ≡ filter
        (λ e. is_between (option_map (λ k. k.items) start.now) (option_map (λ k. k.items) end.now)
        e.0.items)
        pairs.now.entries }
{
    match (start, end) {
        (Some(start), Some(end)) => pairs.range(start..end),
        (Some(start), None) => pairs.range(start..),
        (None, Some(end)) => pairs.range(..end),
        (None, None) => pairs.range(..),
    }
}

/// Tests whether `start` is at most `end`, as [`pairs_in_range`] requires. Returns true if one of them is
/// `None`.
pub(super) fn is_forward(start: Option<&[u8]>, end: Option<&[u8]>) -> bool
    ensures { result ≡ is_forward (option_copied start.entry) (option_copied end.entry) }
{
    match (start, end) {
        (Some(start), Some(end)) => start.cmp(end).is_le(),
        _ => true,
    }
}

/// Calls `f` with each of `pairs` whose key is at least `start` and below `end`, in order, until `f` returns
/// false.
pub(super) fn visit_forward<F: FnMut(&[u8], &[u8]) -> bool>(
    mut pairs: Range<'_, Vec<u8>, StoredValue>,
    start: Option<&[u8]>,
    end: Option<&[u8]>,
    mut f: F,
)
    requires { F.IsAlwaysCallable f }
    ensures { (last : F)
        × VisitsUntilFalse (CalledAtTwo F.FnMut) f (map (λ e. (e.0.items, e.1.value.items))
        (filter (λ e. is_between (option_copied start.entry) (option_copied end.entry) e.0.items)
        pairs.entry)) last }
{
    while let Some((key, pair)) = pairs.next() {
        if is_between(key.as_slice(), start, end) && !f(key.as_slice(), pair.value.as_slice()) {
            return;
        }
    }
}

/// Calls `f` with each of `pairs` whose key is at least `start` and below `end`, from the last one back to
/// the first, until `f` returns false.
pub(super) fn visit_backward<F: FnMut(&[u8], &[u8]) -> bool>(
    mut pairs: Range<'_, Vec<u8>, StoredValue>,
    start: Option<&[u8]>,
    end: Option<&[u8]>,
    mut f: F,
)
    requires { F.IsAlwaysCallable f }
    ensures { (last : F)
        × VisitsUntilFalse (CalledAtTwo F.FnMut) f (reverse (map (λ e. (e.0.items, e.1.value.items))
        (filter (λ e. is_between (option_copied start.entry) (option_copied end.entry) e.0.items)
        pairs.entry))) last }
{
    while let Some((key, pair)) = pairs.next_back() {
        if is_between(key.as_slice(), start, end) && !f(key.as_slice(), pair.value.as_slice()) {
            return;
        }
    }
}

/// Tests whether `key` is at least `start` and below `end`. A bound that is `None` doesn't limit its side.
fn is_between(key: &[u8], start: Option<&[u8]>, end: Option<&[u8]>) -> bool
    ensures { result ≡ is_between (option_copied start.entry) (option_copied end.entry) key.now }
{
    start.is_none_or(|start| start.cmp(key).is_le()) && end.is_none_or(|end| key.cmp(end).is_lt())
}
