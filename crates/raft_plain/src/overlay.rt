//! Puts the records of the append queue over those of the rewrite queue.

ghost use Rattle.std.specs.Prelude.{◌≡◌, ◌∷◌, ℕ, List, false, map, max, option_map, IfOk};
ghost use Rattle.std.specs.FinSet as finset;
ghost use Rattle.raft_plain.specs.Common.{nat_cmp, IsOrdered, step_shown, region_step_shown, steps_on, has_clean, greatest_compaction, least_cut, lesser, is_unjoined, rewritten_within, overlaid_table, overlay, is_under, entries_within, end_of, keys_shown, table_shown, tables_shown, pairs_over, without, deleted_of, AreOverlaid};

use crate::region::{
    Entries, Keys, Region, Regions, end_of, region_or_empty, remove_key, set_region, take_region,
};
use raft_base::{AllocResult, EntryIndex};
use raft_history::RegionStep;
use raft_table::Step;
use std::alloc::Global;
use std::collections::BTreeMap;

/// Returns the records of all regions where those of the append queue, `appended`, are put over those of the
/// rewrite queue, `rewritten`, region by region. `steps` are the steps of the append queue.
///
/// # Errors
///
/// `AllocError` if there is no memory. The records are dropped then.
pub(crate) fn overlay_regions(
    alloc: Global,
    mut appended: Regions,
    rewritten: Regions,
    steps: &[RegionStep],
) -> AllocResult<Regions>
    requires { IsOrdered nat_cmp appended }
    ensures { IfOk result (λ both. AreOverlaid (map region_step_shown steps.now)
        (tables_shown appended) (tables_shown rewritten) (tables_shown both)) }
{
    let mut both = BTreeMap::new(alloc);
    for (id, older) in rewritten {
        let (newer, others) = take_region(appended, id);
        appended = others;
        let region = overlay_region(alloc, id, steps, newer, Some(older))?;
        both = set_region(both, id, region)?;
    }
    for (id, newer) in appended {
        let region = overlay_region(alloc, id, steps, Some(newer), None)?;
        both = set_region(both, id, region)?;
    }
    Ok(both)
}

/// Returns the records of the region `id` where its appended records, `newer`, are put over its rewritten
/// ones, `older`. Either may be absent; `None` is returned if both are. `steps` are those of the append
/// queue, on all regions. If they clean the region, its rewritten records are dropped.
///
/// # Errors
///
/// `AllocError` if there is no memory.
fn overlay_region(
    alloc: Global,
    id: u64,
    steps: &[RegionStep],
    newer: Option<Region>,
    older: Option<Region>,
) -> AllocResult<Option<Region>>
    ensures { IfOk result (λ region. option_map (table_shown id) region
        ≡ overlaid_table id (steps_on id (map region_step_shown steps.now))
        (option_map (table_shown id) newer) (option_map (table_shown id) older)) }
{
    let own = steps_on_region(alloc, id, steps)?;
    if has_clean(own.as_slice()) {
        return Ok(newer);
    }
    match newer {
        Some(newer) => {
            let older = region_or_empty(alloc, older);
            let both = overlay_records(alloc, own.as_slice(), newer, older)?;
            Ok(Some(both))
        }
        None => match older {
            Some(older) => {
                let newer = region_or_empty(alloc, None);
                let both = overlay_records(alloc, own.as_slice(), newer, older)?;
                Ok(Some(both))
            }
            None => Ok(None),
        },
    }
}

/// Returns those of `steps` that are on the region `id`, in order.
///
/// # Errors
///
/// `AllocError` if there is no memory.
#[tactic(auto, unfolding(raft_history::specs::RegionSteps::steps_on))]
fn steps_on_region<'a>(
    alloc: Global,
    id: u64,
    steps: &'a [RegionStep],
) -> AllocResult<Vec<&'a Step>>
    ensures { IfOk result (λ own. map (λ s. step_shown s.now) own.items
        ≡ steps_on id (map region_step_shown steps.now)) }
{
    let mut own = Vec::new(alloc);
    for step in steps {
        if step.region == id {
            own.push(&step.step)?;
        }
    }
    Ok(own)
}

/// Returns the records of a region where its appended ones, `newer`, are put over its rewritten ones,
/// `older`: its appended entries come after those of the rewritten ones that stay, and its appended key
/// values replace those of the same key. Rewritten key values that a step deletes go. `steps` are those of
/// the append queue on the region, and don't clean it. It keeps the atomic group of `older`.
///
/// # Errors
///
/// `AllocError` if there is no memory.
fn overlay_records(
    alloc: Global,
    steps: &[&Step],
    newer: Region,
    older: Region,
) -> AllocResult<Region>
    requires { has_clean (map (λ s. step_shown s.now) steps.now) ≡ false }
    ensures { IfOk result (λ both. (id : ℕ) → table_shown id both
        ≡ overlay (map (λ s. step_shown s.now) steps.now) (table_shown id newer) (table_shown id older)) }
{
    let mut appended = newer.entries;
    let mut entries = remaining_rewritten_entries(alloc, steps, older.entries, appended.as_slice());
    entries.append(&mut appended)?;
    let keys = remove_deleted_keys(older.keys, steps);
    Ok(Region {
        entries,
        keys: insert_pairs(keys, newer.keys)?,
        group: older.group,
    })
}

/// Returns those of the rewritten entries, `older`, that stay: from the greatest compaction among `steps` on
/// and below the least start of a run or index of a truncation, if there are any. None stay if the appended
/// entries, `newer`, don't join them there.
fn remaining_rewritten_entries(
    alloc: Global,
    steps: &[&Step],
    older: Entries,
    newer: &[EntryIndex],
) -> Entries
    ensures { result.items ≡ rewritten_within (greatest_compaction (map (λ s. step_shown s.now) steps.now))
        (least_cut (map (λ s. step_shown s.now) steps.now)) newer.now older.items }
{
    let floor = greatest_compaction(steps);
    let cut = least_cut(steps);
    if is_unjoined(cut, older.as_slice(), newer) {
        return Vec::new(alloc);
    }
    entries_within(floor, cut, older)
}

/// Returns those of `entries` that are at or above index `floor` and, unless `cut` is `None`, below `cut`.
fn entries_within(floor: u64, cut: Option<u64>, mut entries: Entries) -> Entries
    ensures { result.items ≡ entries_within floor cut entries.items }
{
    entries.retain(|entry| floor <= entry.index && is_below_cut(cut, entry.index));
    entries
}

/// Tests whether `index` is below `cut`. True if `cut` is `None`.
fn is_below_cut(cut: Option<u64>, index: u64) -> bool
    ensures { result ≡ is_under cut index }
{
    match cut {
        Some(cut) => index < cut,
        None => true,
    }
}

/// Tests whether the appended entries, `newer`, don't join the rewritten ones, `older`: they don't begin at
/// `cut`, or the rewritten ones end below it. False if `cut` is `None` or there are no appended entries.
fn is_unjoined(cut: Option<u64>, older: &[EntryIndex], newer: &[EntryIndex]) -> bool
    ensures { result ≡ is_unjoined cut (end_of older.now) newer.now }
{
    match (cut, newer.first()) {
        (Some(cut), Some(first)) => first.index != cut || end_of(older) < cut as u128,
        _ => false,
    }
}

/// Tests whether one of `steps`, all on one region, cleans it.
fn has_clean(steps: &[&Step]) -> bool
    ensures { result ≡ has_clean (map (λ s. step_shown s.now) steps.now) }
{
    for step in steps {
        if step.is_clean() {
            return true;
        }
    }
    false
}

/// Returns the greatest index of a compaction among `steps`, or 0 if there is none.
fn greatest_compaction(steps: &[&Step]) -> u64
    ensures { result ≡ greatest_compaction (map (λ s. step_shown s.now) steps.now) }
{
    let mut greatest: u64 = 0;
    for step in steps {
        greatest = greatest.max(compaction_index(step));
    }
    greatest
}

/// Returns the index below which `step` drops entries if it is a compaction, else 0.
fn compaction_index(step: &Step) -> u64
    ensures { (steps : _) → max result (greatest_compaction steps)
        ≡ greatest_compaction (step_shown step.now ∷ steps) }
{
    match step {
        Step::Compact { index } => *index,
        _ => 0,
    }
}

/// Returns the least index from which on one of `steps` drops older entries: a run does so from its start, a
/// truncation from its index. Returns `None` if there is neither.
fn least_cut(steps: &[&Step]) -> Option<u64>
    ensures { result ≡ least_cut (map (λ s. step_shown s.now) steps.now) }
{
    let mut least = None;
    for step in steps {
        least = min_of_options(least, cut_index(step));
    }
    least
}

/// Returns the index from which on `step` drops older entries: the start of a run, or the index of a
/// truncation. Returns `None` for any other step, and for a run without entries.
fn cut_index(step: &Step) -> Option<u64>
    ensures { (steps : _) → lesser result (least_cut steps) ≡ least_cut (step_shown step.now ∷ steps) }
{
    match step {
        Step::Run(run) => Some(run.first()?.index),
        Step::Truncate { index } => Some(*index),
        _ => None,
    }
}

/// Returns the lesser of the numbers `a` and `b`. If only one is there, it returns that one, and `None` if
/// neither is.
pub(crate) fn min_of_options(a: Option<u64>, b: Option<u64>) -> Option<u64>
    ensures { result ≡ lesser a b }
{
    match (a, b) {
        (Some(a), Some(b)) => Some(a.min(b)),
        (a, b) => a.or(b),
    }
}

/// Returns `keys` without those that one of `steps` deletes. None of `steps` cleans the region.
fn remove_deleted_keys(mut keys: Keys, steps: &[&Step]) -> Keys
    requires { has_clean (map (λ s. step_shown s.now) steps.now) ≡ false }
    ensures { keys_shown result
        ≡ without (deleted_of finset.empty (map (λ s. step_shown s.now) steps.now)) (keys_shown keys) }
{
    for step in steps {
        keys = remove_deleted_key(keys, step);
    }
    keys
}

/// Returns `keys` without the one that `step` deletes. Returns them all if it deletes none.
fn remove_deleted_key(keys: Keys, step: &Step) -> Keys
    ensures { (steps : _) → has_clean (step_shown step.now ∷ steps) ≡ false
        → without (deleted_of finset.empty steps) (keys_shown result)
        ≡ without (deleted_of finset.empty (step_shown step.now ∷ steps)) (keys_shown keys) }
{
    match step {
        Step::Del { key } => remove_key(keys, key),
        _ => keys,
    }
}

/// Returns `keys` with the key values of `newer`, which replace those of the same key.
///
/// # Errors
///
/// `AllocError` if there is no memory.
fn insert_pairs(mut keys: Keys, newer: Keys) -> AllocResult<Keys>
    ensures { IfOk result (λ all. keys_shown all ≡ pairs_over (keys_shown newer) (keys_shown keys)) }
{
    for (key, stored) in newer {
        keys.insert(key, stored)?;
    }
    Ok(keys)
}
