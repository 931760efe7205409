//! Tests batches that are read in place of one another, whole and damaged.

use crate::file_parts::{FILE, part_with_bytes};
use raft_records::{
    Error, FileBlockHandle, FilePart, LogFileContext, ReadBatch, ReadContent, Result, next_batch,
};
use raft_trials::again;
use std::alloc::Global;
use std::process::Abort;

/// A batch of runs, commands, puts and removals, short and long, and after it a shorter one of a run and a put, of a
/// file of version 1.
pub(crate) const BATCHES: &[u8; 138] =
    b"\x00\x00\x00\x00\x00\x00`\x00\x00\x00\x00\x00\x00\x00\x00\x1cabcdefghP*\xef\xae\x09\x07\x01\x02\x0a\x02\x03\x01\x02\x01\x07\x03\x01\x01k\x02vv\x02\x02\x02\xac\x02\x07\x03\x02\x01d\x80\x80\x80\x80\x80\x20\x01\x02\x80\x80\x80\x80\x20\x03\x08\x03\x02\x03\x05\x09\x01\x00\xff\xff\xff\xff\xff\xff\xff\xff\xff\x01\x03\x01\x00\x00\xfd\x8a\x1f\x19\x00\x00\x00\x00\x00\x00*\x00\x00\x00\x00\x00\x00\x00\x00\x16xy\x99(\xe6\x8f\x02\x07\x01\x02\x0c\x01\x02\x08\x03\x01\x04long\x00g\xfd\xfb\x92";

/// The length of the first of these batches, in bytes.
pub(crate) const FIRST: usize = 96;

/// Reads the batch at byte `at` of a part in place of the one that `batch` has. Returns where the next batch begins;
/// `None` at the end of the part and behind it.
///
/// # Errors
///
/// Those of [`ReadBatch::read_next`]. `batch` has no items then.
fn read_at<'a>(batch: &mut ReadBatch<'a>, part: &'a FilePart, at: usize) -> Result<Option<usize>> {
    if at > part.bytes().len() {
        return Ok(None);
    }
    let context = LogFileContext::new(part.id(), part.version());
    batch.read_next(&context, part.offset(), part.bytes(), at)
}

/// Tests whether a batch has no items, and no spans of them.
fn has_no_items(batch: &ReadBatch<'_>) -> bool {
    let (_, items, spans) = batch.parts();
    items.is_empty() && spans.is_empty()
}

/// Tests whether a batch has `count` items, those of the batch at byte `at` of a part, or none at the end of the part.
///
/// # Errors
///
/// Those of [`next_batch`]; `Memory`.
fn has_items_at(
    alloc: Global,
    batch: &ReadBatch<'_>,
    part: &FilePart,
    at: usize,
    count: usize,
) -> Result<bool> {
    if at > part.bytes().len() {
        return Ok(false);
    }
    let own = batch.to_batch(alloc)?;
    let has_count = own.iter().count() == count;
    match next_batch(part, at)? {
        Some((items, _)) => Ok(has_count && own == items),
        None => Ok(has_count && has_no_items(batch)),
    }
}

/// Tests whether a batch is the second one of `BATCHES`.
fn is_second_batch(batch: &ReadBatch<'_>) -> bool {
    let (place, items, spans) = batch.parts();
    let own_place = FileBlockHandle {
        id: FILE,
        offset: 212,
        len: 6,
    };
    let [run, put] = items else {
        return false;
    };
    let is_run = matches!(
        run.content,
        ReadContent::Run {
            first: 12,
            count: 2,
        }
    );
    let is_put = match put.content {
        ReadContent::Put { key, value } => key == b"long".as_slice() && value.is_empty(),
        _ => false,
    };
    let regions = (run.region, put.region);
    place == own_place
        && spans == [(0, 1), (1, 1)].as_slice()
        && regions == (7, 8)
        && is_run
        && is_put
}

/// Tests that a batch that is read in place of another one has its own items, and no others.
#[test]
fn batches_are_read_in_place_of_one_another(rt: HostRuntime) {
    assert!(rt; again!(check_batches_read_in_turn(&rt, rt.alloc())).is_ok());
}

/// Reads the second batch of [`BATCHES`], the first, the second once more, and then the end of the part, each in place
/// of the one before. Asserts after each where the next batch begins, how many items there are, that they are those
/// that [`next_batch`] returns, and whether it is the second batch.
///
/// # Errors
///
/// Those of reading the batches; `Memory`.
fn check_batches_read_in_turn(rt: &impl Abort, alloc: Global) -> Result<()> {
    let part = part_with_bytes(alloc, BATCHES)?;
    let mut batch = ReadBatch::new(alloc, FILE);
    for &(at, end, items) in &[
        (FIRST, Some(138), 2),
        (0, Some(FIRST), 9),
        (FIRST, Some(138), 2),
        (138, None, 0),
    ] {
        assert!(rt; read_at(&mut batch, &part, at)? == end, "at {at}");
        assert!(rt; has_items_at(alloc, &batch, &part, at, items)?, "at {at}");
        assert!(rt; is_second_batch(&batch) == (at == FIRST), "at {at}");
    }
    Ok(())
}

/// Tests that a damaged batch, read in place of another one, leaves no items.
#[test]
fn damaged_batches_hold_no_items(rt: HostRuntime) {
    assert!(rt; again!(check_damaged_batches_in_turn(&rt, rt.alloc())).is_ok());
}

/// Tests that a batch with a flipped bit, anywhere but in its entry block, leaves no items when it is read in place of
/// another one.
///
/// # Errors
///
/// Those of [`is_flipped_bit_refused`].
fn check_damaged_batches_in_turn(rt: &impl Abort, alloc: Global) -> Result<()> {
    for at in (FIRST..FIRST + 16).chain(FIRST + 22..138) {
        assert!(rt; is_flipped_bit_refused(alloc, at)?, "at {at}");
    }
    Ok(())
}

/// Flips the lowest bit of the byte at `at`, and tests whether the second batch is refused and leaves no items, and the
/// first one is read before and again.
///
/// # Errors
///
/// Those of reading the first batch; `Memory`. Any error of reading the second is looked at.
fn is_flipped_bit_refused(alloc: Global, at: usize) -> Result<bool> {
    let mut bytes = *BATCHES;
    if let Some(byte) = bytes.get_mut(at) {
        *byte ^= 1;
    }
    let part = part_with_bytes(alloc, bytes.as_slice())?;
    let mut batch = ReadBatch::new(alloc, FILE);
    let before = read_at(&mut batch, &part, 0)?;
    match read_at(&mut batch, &part, FIRST) {
        Err(Error::Corruption(_text)) => {}
        Err(Error::Memory) => return Err(Error::Memory),
        _ => return Ok(false),
    }
    let is_empty = has_no_items(&batch);
    let again = read_at(&mut batch, &part, 0)?;
    Ok(is_empty && before == Some(FIRST) && again == before)
}
