//! Tests all lists of four group markers, read by one context and by several that are merged.

use crate::files::{context_of_files, replay_without_copy};
use crate::groups::{Effect, KEYS, keys_and_group_of_region, part_with_marker};
use AtomicGroupStatus::{Begin, End, Middle};
use raft_memtable::{LogQueue, MemTableAccessor, MemTableRecoverContext, Result};
use raft_records::{AtomicGroupStatus, FilePart};
use raft_trials::again;
use std::alloc::Global;

/// The group markers of four batches.
type Statuses = [AtomicGroupStatus; 4];

const STATUSES: [AtomicGroupStatus; 3] = [Begin, Middle, End];

/// How many batches each context replays; and then the positions of the contexts into which the newer neighbors are
/// merged, one merge after the other.
type Cutting = (&'static [usize], &'static [usize]);

static CUTTINGS: [Cutting; 15] = [
    (&[4], &[]),
    (&[1, 3], &[0]),
    (&[2, 2], &[0]),
    (&[3, 1], &[0]),
    (&[1, 1, 2], &[0, 0]),
    (&[1, 1, 2], &[1, 0]),
    (&[1, 2, 1], &[0, 0]),
    (&[1, 2, 1], &[1, 0]),
    (&[2, 1, 1], &[0, 0]),
    (&[2, 1, 1], &[1, 0]),
    (&[1, 1, 1, 1], &[0, 0, 0]),
    (&[1, 1, 1, 1], &[0, 1, 0]),
    (&[1, 1, 1, 1], &[1, 0, 0]),
    (&[1, 1, 1, 1], &[1, 1, 0]),
    (&[1, 1, 1, 1], &[2, 1, 0]),
];

/// Returns the ways in which four batches are read and merged.
fn rows_of_cuttings() -> &'static [Cutting] {
    &CUTTINGS
}

/// Tests whether group markers in a row are a whole group: a `Begin`, any number of `Middle`s and an `End`.
fn is_whole_group(statuses: &[AtomicGroupStatus]) -> bool {
    match statuses {
        [Begin, middles @ .., End] => middles.iter().all(|status| *status == Middle),
        _ => false,
    }
}

/// Returns what these group markers have to give: the keys of the batches of each whole group, and the files of the
/// last one.
fn expected_effect(statuses: &Statuses) -> Effect {
    let mut keys = [false; 4];
    let mut group = None;
    for &(first, last) in &[(0, 1), (0, 2), (1, 2), (0, 3), (1, 3), (2, 3)] {
        if is_whole_group(&statuses[first..=last]) {
            keys[first..=last].fill(true);
            group = Some((first as u64 + 1, last as u64 + 1));
        }
    }
    (keys, group)
}

/// Tests the rule by which the other test decides what group markers have to give.
#[test]
fn whole_groups_in_rows_of_markers_are_found(rt: HostRuntime) {
    for &(statuses, effect) in &[
        (
            [Begin, Begin, End, End],
            ([false, true, true, false], Some((2, 3))),
        ),
        ([Middle, End, Begin, Middle], ([false; 4], None)),
        (
            [Begin, Middle, End, Middle],
            ([true, true, true, false], Some((1, 3))),
        ),
        ([Begin, End, Begin, End], ([true; 4], Some((3, 4)))),
    ] {
        assert!(rt; expected_effect(&statuses) == effect);
    }
}

/// Returns four batches with these group markers of group 9, in the files 1 to 4: each puts a key in region 5.
///
/// # Errors
///
/// Those of [`part_with_marker`]; `Memory`.
fn parts_with_markers(alloc: Global, statuses: &Statuses) -> Result<Vec<FilePart>> {
    let mut parts = Vec::new(alloc);
    let mut seq = 1u64;
    for (status, key) in statuses.iter().zip(KEYS.iter()) {
        parts.push(part_with_marker(alloc, 9, 5, *status, key.as_slice(), seq)?)?;
        seq = seq.saturating_add(1);
    }
    Ok(parts)
}

/// Returns contexts that have replayed so many of the batches each, one after the other.
///
/// # Errors
///
/// Those of [`context_of_files`]; `Memory`.
fn contexts_of_parts(
    alloc: Global,
    parts: &[FilePart],
    lengths: &[usize],
) -> Result<Vec<MemTableRecoverContext>> {
    let mut contexts = Vec::new(alloc);
    let mut rest = parts;
    for length in lengths {
        let (front, behind) = rest.split_at((*length).min(rest.len()));
        contexts.push(context_of_files(alloc, front)?)?;
        rest = behind;
    }
    Ok(contexts)
}

/// Merges into the context at position `at` its newer neighbor, which is taken out; does nothing where there is none.
///
/// # Errors
///
/// Those of [`MemTableRecoverContext::merge`]. The neighbor is dropped then.
fn merge_at(contexts: &mut Vec<MemTableRecoverContext>, at: usize) -> Result<()> {
    if at < contexts.len().saturating_sub(1) {
        let newer = contexts.remove(at + 1);
        contexts[at].merge(newer, LogQueue::Rewrite)?;
    }
    Ok(())
}

/// Returns the tables of batches that are read and merged as `cutting` says; `None` where that leaves several contexts.
///
/// # Errors
///
/// Those of the contexts' calls; `Memory`.
fn tables_at_cutting(
    alloc: Global,
    parts: &[FilePart],
    cutting: Cutting,
) -> Result<Option<MemTableAccessor>> {
    let (lengths, merges) = cutting;
    let mut contexts = contexts_of_parts(alloc, parts, lengths)?;
    for at in merges {
        merge_at(&mut contexts, *at)?;
    }
    match contexts.pop() {
        Some(context) if contexts.is_empty() => Ok(Some(context.finish()?)),
        _ => Ok(None),
    }
}

/// Tests whether the tables have this effect, and nothing else.
fn have_effect(tables: &MemTableAccessor, effect: Effect) -> bool {
    let records = effect.0.iter().filter(|has| **has).count();
    keys_and_group_of_region(tables, 5) == effect
        && tables.get(9).is_none()
        && tables.stats().live_entries(LogQueue::Rewrite) == records
        && tables.is_empty() == (records == 0)
}

/// Returns the tables of batches that one context replays without copies of their items.
///
/// # Errors
///
/// Those of the contexts' calls; `Memory`.
fn tables_of_one_context(alloc: Global, parts: &[FilePart]) -> Result<MemTableAccessor> {
    let mut context = MemTableRecoverContext::new(alloc)?;
    for part in parts {
        replay_without_copy(&mut context, part, part.id())?;
    }
    context.finish()
}

/// Tests whether these group markers have the effect that they should have, however the batches are read and merged.
///
/// # Errors
///
/// Those of making the batches, and of reading and merging them; `Memory`.
fn has_expected_effect(alloc: Global, statuses: &Statuses) -> Result<bool> {
    let parts = parts_with_markers(alloc, statuses)?;
    let effect = expected_effect(statuses);
    for &cutting in rows_of_cuttings() {
        match tables_at_cutting(alloc, parts.as_slice(), cutting)? {
            Some(tables) if have_effect(&tables, effect) => {}
            _ => return Ok(false),
        }
    }
    Ok(have_effect(&tables_of_one_context(alloc, parts.as_slice())?, effect))
}

/// Tests whether all lists of group markers that begin with these two have the effects that they should have.
///
/// # Errors
///
/// Those of [`has_expected_effect`].
fn have_all_lists_expected_effects(
    alloc: Global,
    first: AtomicGroupStatus,
    second: AtomicGroupStatus,
) -> Result<bool> {
    for &third in &STATUSES {
        for &fourth in &STATUSES {
            if !has_expected_effect(alloc, &[first, second, third, fourth])? {
                return Ok(false);
            }
        }
    }
    Ok(true)
}

/// Tests that any four group markers have the effect that they should have, however their batches are read and
/// merged.
#[test]
fn group_markers_have_the_same_effect_at_each_cutting(rt: HostRuntime) {
    for &first in &STATUSES {
        for &second in &STATUSES {
            let all = again!(have_all_lists_expected_effects(rt.alloc(), first, second));
            assert!(rt; matches!(all, Ok(true)), "{first:?} {second:?}");
        }
    }
}
