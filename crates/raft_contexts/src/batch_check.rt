//! Checks of a batch before it is replayed.

ghost use Rattle.std.specs.Prelude.{◌≡◌, ◌≢◌, ℕ, List, IsTrue, MatchBool, IfOk, IfErr, OnOk, None, map};
ghost use Rattle.raft_contexts.specs.Common.{FileBlockHandle, Rewrite, IsAnyCorruption, first_marker, marker_byte, item_of, content_of, entries as entries_of, IsPlaceInFile, content_shown, items_shown, IsInFile, AreInFile, HaveStatus};
ghost use Rattle.raft_contexts.specs.Common.{marker_found, HaveNoMarker};

use raft_base::{EntryIndex, Error, FileId, LogQueue, Result, is_consecutive};
use raft_records::{
    AtomicGroupStatus, LogItem, LogItemBatch, LogItemContent, OpType, ReadBatch, ReadContent,
    ReadItem, is_reserved,
};
use std::alloc::Global;

/// Checks that `batch` may stand in the file `file`. Returns the group and the status of its first group
/// marker, or `None` if it has none. In the append queue, which ignores markers, it always returns `None`.
///
/// # Errors
///
/// `Corruption` if entries aren't consecutive or don't have their places in `file`; if a put has no value, no
/// file or another file, but under the reserved key of group markers it needs neither; or if in the rewrite
/// queue the status of a group marker is unknown. `Memory` if there is none for the text.
pub(crate) fn check_batch(
    alloc: Global,
    batch: &LogItemBatch,
    file: FileId,
) -> Result<Option<(u64, AtomicGroupStatus)>>
    ensures items { OnOk result (AreInFile file batch.now) }
    ensures markers { OnOk result (HaveStatus file.queue batch.now) }
    ensures marker { IfOk result (λ marker. marker ≡ marker_found file.queue batch.now) }
    ensures refused { IfErr result
        (λ e. e ≢ Error.Memory → AreInFile file batch.now → HaveStatus file.queue batch.now → ⊥) }
    ensures fault { IfErr result IsAnyCorruption }
{
    let items = batch.iter().as_slice();
    if !was_decoded_in(batch, file) && !are_in_file(items, file) {
        return Err(Error::corruption(alloc, "an item can't stand in a batch of its file"));
    }
    match file.queue {
        LogQueue::Append => Ok(None),
        LogQueue::Rewrite => parse_first_group_marker(alloc, items),
    }
}

/// Tests, at little cost, whether `batch` was read in the file `file` and has no group marker that counts, so
/// that it takes effect at once. `false` doesn't say that it isn't so.
pub(crate) fn is_lone_read(batch: &ReadBatch<'_>, file: FileId) -> bool
    ensures items { IsTrue result → AreInFile file batch.now }
    ensures markers { IsTrue result → HaveStatus file.queue batch.now }
    ensures marker { IsTrue result → marker_found file.queue batch.now ≡ None }
{
    let (place, items, _) = batch.parts();
    if place.id != file {
        return false;
    }
    match file.queue {
        LogQueue::Append => true,
        LogQueue::Rewrite => have_no_marker(items),
    }
}

/// Tests, at little cost, whether none of `items` is a group marker. `false` doesn't say that one is.
fn have_no_marker(items: &[ReadItem<'_>]) -> bool
    ensures { IsTrue result → (place : FileBlockHandle) (spans : List (ℕ × ℕ))
        → HaveNoMarker (items_shown place items.now spans) }
{
    items.iter().all(|item| is_no_marker(item))
}

/// Tests whether `item` is anything but a put under the reserved key of group markers. `false` doesn't say
/// that it is a marker.
fn is_no_marker(item: &ReadItem<'_>) -> bool
    ensures { IsTrue result → (place : FileBlockHandle) (spans : List (ℕ × ℕ))
        → marker_byte (content_shown place item.now.content spans) ≡ None }
{
    match &item.content {
        ReadContent::Put { key, .. } => !is_reserved(key),
        _ => true,
    }
}

/// Tests whether `batch` was decoded as one of the file `file`, so that its items need no check. `false`
/// doesn't say that they are wrong.
fn was_decoded_in(batch: &LogItemBatch, file: FileId) -> bool
    ensures { IsTrue result → AreInFile file batch.now }
{
    match batch.decoded_in() {
        Some(decoded_in) => decoded_in == file,
        None => false,
    }
}

/// Returns the group and the status of the first group marker among `items`, or `None` if there is none. The
/// other markers are parsed too.
///
/// # Errors
///
/// `Corruption` if the status of a marker is unknown; `Memory` if there is none for the text.
fn parse_first_group_marker(
    alloc: Global,
    items: &[LogItem],
) -> Result<Option<(u64, AtomicGroupStatus)>>
    ensures markers { OnOk result (HaveStatus Rewrite (map item_of items.now)) }
    ensures marker { IfOk result (λ marker. marker ≡ first_marker (map item_of items.now)) }
    ensures refused { IfErr result
        (λ e. e ≢ Error.Memory → HaveStatus Rewrite (map item_of items.now) → ⊥) }
    ensures fault { IfErr result IsAnyCorruption }
{
    let mut marker = None;
    for item in items {
        let found = AtomicGroupStatus::parse(alloc, item)?;
        marker = marker.or(found);
    }
    Ok(marker)
}

/// Tests whether each of `items` may stand in a batch of the file `file` ([`is_in_file`]).
fn are_in_file(items: &[LogItem], file: FileId) -> bool
    ensures { MatchBool result (AreInFile file (map item_of items.now))
        (AreInFile file (map item_of items.now) → ⊥) }
{
    items.iter().all(|item| is_in_file(item, file))
}

/// Tests whether `item` may stand in a batch of the file `file`: entries are consecutive and have their
/// places in that file, and a put has a value and that file. A put under the reserved key of group markers
/// needs neither.
fn is_in_file(item: &LogItem, file: FileId) -> bool
    ensures { MatchBool result (IsInFile file (content_of item.now.content))
        (IsInFile file (content_of item.now.content) → ⊥) }
{
    match &item.content {
        LogItemContent::EntryIndexes(entries) => is_run_in_file(&entries.0, file),
        LogItemContent::Command(_) => true,
        LogItemContent::Kv(kv) if is_reserved(kv.key.as_slice()) => true,
        LogItemContent::Kv(kv) => match (kv.op_type, &kv.value, kv.file_id) {
            (OpType::Put, Some(_), Some(id)) => id == file,
            (OpType::Put, _, _) => false,
            (OpType::Del, _, _) => true,
        },
    }
}

/// Tests whether `entries` are consecutive and all have their places in the file `file`.
fn is_run_in_file(entries: &[EntryIndex], file: FileId) -> bool
    ensures { MatchBool result (IsInFile file (entries_of entries.now))
        (IsInFile file (entries_of entries.now) → ⊥) }
{
    is_consecutive(entries) && entries.iter().all(|entry| is_place_in_file(entry, file))
}

/// Tests whether `entry` has its place in the file `file`.
fn is_place_in_file(entry: &EntryIndex, file: FileId) -> bool
    ensures { MatchBool result (IsPlaceInFile file entry.now.entries)
        (IsPlaceInFile file entry.now.entries → ⊥) }
{
    entry.entries.is_some_and(|place| place.id == file)
}
