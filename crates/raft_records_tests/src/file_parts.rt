//! Tests batches that are read one after another, whole and damaged.

use crate::refusals::is_corruption_with_text;
use raft_records::{
    Command, CompressionType, EntryIndex, Error, FileBlockHandle, FileId, FilePart, LogBatch,
    LogItemContent, LogQueue, Result, Version, entries_block_in, entry_bytes, next_batch,
    readable_front,
};
use raft_trials::again;
use std::alloc::Global;
use std::process::Abort;

/// The batch of region 7 with the indexes 10 and 11 and the bytes "ab" and "c", and that of region 1 with
/// `Clean`, of a file of version 1.
const BATCHES: &[u8; 58] =
    b"\x00\x00\x00\x00\x00\x00\x22\x00\x00\x00\x00\x00\x00\x00\x00\x17abc\xc2\x41\x24\x35\x01\x07\x01\x02\x0a\x02\x03\xa7\xb3\xdf\x17\x00\x00\x00\x00\x00\x00\x18\x00\x00\x00\x00\x00\x00\x00\x00\x10\x01\x01\x02\x01\x5a\x80\x0b\xdd";

/// The length of the first of these batches, in bytes.
const FIRST: usize = 34;

/// A file of the append queue.
pub(crate) const FILE: FileId = FileId {
    queue: LogQueue::Append,
    seq: 12,
};

/// The place of the first batch's entry block.
const BLOCK: FileBlockHandle = FileBlockHandle {
    id: FILE,
    offset: 116,
    len: 7,
};

/// Returns `bytes` as the part of [`FILE`] from offset 100 on.
///
/// # Errors
///
/// `Memory` alone: the bytes end far below the highest offset.
pub(crate) fn part_with_bytes(alloc: Global, bytes: &[u8]) -> Result<FilePart> {
    FilePart::new(FILE, Version::V1, 100, Vec::from_slice(alloc, bytes)?)
}

/// Reads the batch at byte `at` of a part. Returns how many items it has, and where the next batch begins; `None` at
/// the end of the part and behind it.
///
/// # Errors
///
/// Those of [`next_batch`].
fn count_items_at(part: &FilePart, at: usize) -> Result<Option<(usize, usize)>> {
    if at > part.bytes().len() {
        return Ok(None);
    }
    match next_batch(part, at)? {
        Some((batch, next)) => Ok(Some((batch.iter().count(), next))),
        None => Ok(None),
    }
}

/// Tests that the batches of a part are read in order, and that it knows its file and lends its entries.
#[test]
fn batches_are_read_one_after_another(rt: HostRuntime) {
    assert!(rt; again!(check_batches_in_order(&rt, rt.alloc())).is_ok());
}

/// Tests that the batches of `BATCHES` are read one after another, and that a part knows its file and lends its
/// entries.
///
/// # Errors
///
/// Those of reading the batches, their blocks and their entries; `Memory`.
fn check_batches_in_order(rt: &impl Abort, alloc: Global) -> Result<()> {
    let part = part_with_bytes(alloc, BATCHES)?;
    for &(at, read) in &[(0, Some((1, FIRST))), (FIRST, Some((1, 58))), (58, None)] {
        assert!(rt; count_items_at(&part, at)? == read, "at {at}");
    }
    assert!(rt; knows_its_file(&part)?);
    assert!(rt; lends_entry_bytes(alloc, &part)?);
    Ok(())
}

/// Tests whether a part lends the entry bytes of its first batch, and the bytes of each of its entries.
///
/// # Errors
///
/// Those of reading the batch, its block and its entries; `Memory`.
fn lends_entry_bytes(alloc: Global, part: &FilePart) -> Result<bool> {
    let Some((batch, _)) = next_batch(part, 0)? else {
        return Ok(false);
    };
    for item in batch.iter() {
        if let LogItemContent::EntryIndexes(entries) = &item.content {
            return are_both_entries_lent(alloc, part, entries.0.as_slice());
        }
    }
    Ok(false)
}

/// Tests whether a part lends the block of two entries, and it the bytes of each.
///
/// # Errors
///
/// Those of [`entries_block_in`] and [`entry_bytes`].
fn are_both_entries_lent(alloc: Global, part: &FilePart, entries: &[EntryIndex]) -> Result<bool> {
    let [first, second] = entries else {
        return Ok(false);
    };
    let Some(place) = first.entries else {
        return Ok(false);
    };
    let block = entries_block_in(part, place)?;
    let read = (
        entry_bytes(alloc, block, first)?,
        entry_bytes(alloc, block, second)?,
    );
    let is_lent = block == b"abc".as_slice() && read == (b"ab".as_slice(), b"c".as_slice());
    Ok(place == BLOCK && second.entries == Some(BLOCK) && is_lent)
}

/// Tests whether the first batch and its clone know the file that it was read from, until an item is added.
///
/// # Errors
///
/// Those of reading the batch; `Memory`.
fn knows_its_file(part: &FilePart) -> Result<bool> {
    let Some((mut batch, _)) = next_batch(part, 0)? else {
        return Ok(false);
    };
    let copy = batch.clone()?;
    let decoded_in = batch.decoded_in();
    batch.add_command(1, Command::Clean)?;
    Ok(decoded_in == Some(FILE) && copy.decoded_in() == Some(FILE) && batch.decoded_in().is_none())
}

/// Tests that a batch that is cut short or has a flipped bit is refused, wherever that is.
#[test]
fn damaged_batches_are_refused(rt: HostRuntime) {
    assert!(rt; again!(check_damaged_batches(&rt, rt.alloc())).is_ok());
}

/// Tests that a batch is refused which is cut short (unless nothing of it is left), or has a flipped bit (unless that
/// is in its entry block, which isn't read); and that the readable prefix of such bytes ends with the last whole batch,
/// with the error of the decoders.
///
/// # Errors
///
/// That of a read, unless it is `Corruption`; `Memory`.
fn check_damaged_batches(rt: &impl Abort, alloc: Global) -> Result<()> {
    assert!(rt; count_items_at(&part_with_bytes(alloc, b"")?, 0)?.is_none());
    for len in 1..FIRST {
        let bytes = BATCHES.get(..len).unwrap_or(&[]);
        assert!(rt; is_first_batch_refused(alloc, bytes)?, "{len} bytes");
    }
    for at in 0..FIRST {
        assert!(rt; is_flipped_bit_refused(alloc, at)?, "at {at}");
    }
    for &(len, front, reason) in &[
        (0, 0, ""),
        (1, 0, "Log batch header too short: 1"),
        (16, 0, "a log batch of 34 bytes is cut short"),
        (FIRST - 1, 0, "a log batch of 34 bytes is cut short"),
        (FIRST, FIRST, ""),
        (FIRST + 6, FIRST, "Log batch header too short: 6"),
        (57, FIRST, "a log batch of 24 bytes is cut short"),
        (58, 58, ""),
    ] {
        assert!(rt;
            is_prefix_readable(alloc, len, front, reason)?,
            "{len} bytes"
        );
    }
    Ok(())
}

/// The batch of region 1 with `Clean`, signed for file 12 of version 2.
const SIGNED: &[u8; 24] =
    b"\x00\x00\x00\x00\x00\x00\x18\x00\x00\x00\x00\x00\x00\x00\x00\x10\x01\x01\x02\x01\x56\x80\x0b\xdd";

/// Tests whether `SIGNED` is read as a batch of append file `seq` in a version. It isn't where it is refused as
/// `Corruption`.
///
/// # Errors
///
/// That of the read, unless it is `Corruption`; `Memory`.
fn is_read_in(alloc: Global, seq: u64, version: Version) -> Result<bool> {
    let id = FileId::new(LogQueue::Append, seq);
    let part = FilePart::new(id, version, 100, Vec::from_slice(alloc, SIGNED)?)?;
    match count_items_at(&part, 0) {
        Ok(read) => Ok(read == Some((1, 24))),
        Err(Error::Corruption(_text)) => Ok(false),
        Err(e) => Err(e),
    }
}

/// Tests that a signed batch is read in its own file, and in no file whose number differs in its low 32 bits.
#[test]
fn signed_batches_are_read_in_their_files(rt: HostRuntime) {
    assert!(rt; again!(check_signed_batches(&rt, rt.alloc())).is_ok());
}

/// Tests that a batch is read in the file that it was signed for, and in another whose number has the same low 32 bits.
///
/// # Errors
///
/// Those of [`is_read_in`].
fn check_signed_batches(rt: &impl Abort, alloc: Global) -> Result<()> {
    for &(seq, version, is_read) in &[
        (12, Version::V2, true),
        (13, Version::V2, false),
        (0x1_0000_000c, Version::V2, true),
        (12, Version::V1, false),
    ] {
        assert!(rt;
            is_read_in(alloc, seq, version)? == is_read,
            "in file {seq}"
        );
    }
    Ok(())
}

/// Tests whether the batch at the start of these bytes is refused as `Corruption`.
///
/// # Errors
///
/// That of the read, unless it is `Corruption`; `Memory`.
fn is_first_batch_refused(alloc: Global, bytes: &[u8]) -> Result<bool> {
    match count_items_at(&part_with_bytes(alloc, bytes)?, 0) {
        Ok(_read) => Ok(false),
        Err(Error::Corruption(_text)) => Ok(true),
        Err(e) => Err(e),
    }
}

/// Flips the lowest bit of the byte at `at`, and tests whether the first batch is refused; or, if the byte is in its
/// entry block, whether the batch is read and the block refused.
///
/// # Errors
///
/// That of a read, unless it is `Corruption`; `Memory`.
fn is_flipped_bit_refused(alloc: Global, at: usize) -> Result<bool> {
    let mut bytes = *BATCHES;
    if let Some(byte) = bytes.get_mut(at) {
        *byte ^= 1;
    }
    let bytes = bytes.get(..FIRST).unwrap_or(&[]);
    if at < 16 || at >= 23 {
        return is_first_batch_refused(alloc, bytes);
    }
    let is_read = count_items_at(&part_with_bytes(alloc, bytes)?, 0)? == Some((1, FIRST));
    Ok(
        is_read
            && is_block_refused(alloc, bytes)?
            && is_block_refused_in(&part_with_bytes(alloc, bytes)?)?,
    )
}

/// Tests whether the entry block of the first batch in these bytes is refused as `Corruption`.
///
/// # Errors
///
/// That of the read, unless it is `Corruption`.
fn is_block_refused(alloc: Global, bytes: &[u8]) -> Result<bool> {
    let block = bytes.get(16..23).unwrap_or(&[]);
    match LogBatch::decode_entries_block(alloc, block, BLOCK, CompressionType::None) {
        Ok(_read) => Ok(false),
        Err(Error::Corruption(_text)) => Ok(true),
        Err(e) => Err(e),
    }
}

/// Tests whether the entry block of the first batch of a part is refused as `Corruption` when it is to be lent.
///
/// # Errors
///
/// That of the call, unless it is `Corruption`.
fn is_block_refused_in(part: &FilePart) -> Result<bool> {
    match entries_block_in(part, BLOCK) {
        Ok(_lent) => Ok(false),
        Err(Error::Corruption(_text)) => Ok(true),
        Err(e) => Err(e),
    }
}

/// A place, and the error with which no entry block is lent there.
type PlaceRow = (FileBlockHandle, &'static str);

/// Places in another file, before the part, behind it, and ending behind it; and one whose last bytes aren't its
/// checksum.
static NO_BLOCKS: [PlaceRow; 6] = [
    (
        FileBlockHandle {
            id: FileId {
                queue: LogQueue::Append,
                seq: 13,
            },
            ..BLOCK
        },
        "the entry block at offset 116 of file 13 isn't in the part",
    ),
    (
        FileBlockHandle {
            id: FileId {
                queue: LogQueue::Rewrite,
                seq: 12,
            },
            ..BLOCK
        },
        "the entry block at offset 116 of file 12 isn't in the part",
    ),
    (
        FileBlockHandle {
            offset: 99,
            ..BLOCK
        },
        "the entry block at offset 99 of file 12 isn't in the part",
    ),
    (
        FileBlockHandle {
            offset: 159,
            ..BLOCK
        },
        "the entry block at offset 159 of file 12 isn't in the part",
    ),
    (
        FileBlockHandle {
            offset: 152,
            ..BLOCK
        },
        "the entry block at offset 152 of file 12 isn't in the part",
    ),
    (FileBlockHandle { len: 4, ..BLOCK }, "Content too short 4"),
];

/// Returns the rows of places at which there is no entry block.
fn rows_without_block() -> &'static [PlaceRow] {
    &NO_BLOCKS
}

/// Tests whether no entry block is lent at the place of a row, with its error.
///
/// # Errors
///
/// That of the call, unless it is `Corruption` or `Codec`.
fn is_no_block_lent(part: &FilePart, row: &PlaceRow) -> Result<bool> {
    is_corruption_with_text(entries_block_in(part, row.0), row.1)
}

/// Tests whether an entry of `len` bytes at an offset isn't found in three entry bytes, with the error `reason`.
///
/// # Errors
///
/// That of the call, unless it is `Corruption` or `Codec`.
fn is_no_entry_found(alloc: Global, offset: u32, len: u32, reason: &str) -> Result<bool> {
    let entry = EntryIndex {
        index: 10,
        entry_offset: offset,
        entry_len: len,
        ..EntryIndex::default()
    };
    is_corruption_with_text(entry_bytes(alloc, b"abc", &entry), reason)
}

/// Tests that entry blocks and entries at wrong places are refused, each with its text.
#[test]
fn entries_at_wrong_places_are_refused(rt: HostRuntime) {
    assert!(rt; again!(check_wrong_places(&rt, rt.alloc())).is_ok());
}

/// Tests that entry blocks and entries at wrong places are refused, each with its text.
///
/// # Errors
///
/// Those of [`is_no_block_lent`] and [`is_no_entry_found`]; `Memory`.
fn check_wrong_places(rt: &impl Abort, alloc: Global) -> Result<()> {
    let part = part_with_bytes(alloc, BATCHES)?;
    for row in rows_without_block() {
        assert!(rt; is_no_block_lent(&part, row)?, "{}", row.1);
    }
    for &(offset, len, reason) in &[
        (
            2,
            2,
            "entry 10 ends at byte 4 of an entry block with 3 entry bytes",
        ),
        (
            4,
            0,
            "entry 10 ends at byte 4 of an entry block with 3 entry bytes",
        ),
        (
            u32::MAX,
            u32::MAX,
            "entry 10 ends at byte 8589934590 of an entry block with 3 entry bytes",
        ),
    ] {
        assert!(rt;
            is_no_entry_found(alloc, offset, len, reason)?,
            "at {offset}"
        );
    }
    Ok(())
}

/// Tests that a part is refused if its end would be past the highest number.
#[test]
fn parts_end_at_the_last_offset(rt: HostRuntime) {
    assert!(rt; again!(check_ends_of_parts(&rt, rt.alloc())).is_ok());
}

/// Tests that a part is refused if its end would be past the highest number.
///
/// # Errors
///
/// That of making a part, unless it is `InvalidArgument`; `Memory`.
fn check_ends_of_parts(rt: &impl Abort, alloc: Global) -> Result<()> {
    let end = u64::MAX - 58;
    for &(offset, fits) in &[(end, true), (end + 1, false), (u64::MAX, false)] {
        let bytes = Vec::from_slice(alloc, BATCHES)?;
        match FilePart::new(FILE, Version::V2, offset, bytes) {
            Ok(_part) => assert!(rt; fits),
            Err(Error::InvalidArgument(_text)) => assert!(rt; !fits),
            Err(e) => return Err(e),
        }
    }
    Ok(())
}

/// Tests whether the first `front` bytes of the first `len` bytes of `BATCHES` are readable, and the next batch is
/// refused for `reason`, or not at all if that is empty.
///
/// # Errors
///
/// That of the next batch, unless it is `Corruption`; `Memory`.
fn is_prefix_readable(alloc: Global, len: usize, front: usize, reason: &str) -> Result<bool> {
    let bytes = BATCHES.get(..len).unwrap_or(&[]);
    is_prefix_of_part_readable(&part_with_bytes(alloc, bytes)?, front, reason)
}

/// Tests whether the first `front` bytes of a part are readable, and the next batch is refused for `reason`, or not at
/// all if that is empty.
///
/// # Errors
///
/// That of the next batch, unless it is `Corruption`.
pub(crate) fn is_prefix_of_part_readable(
    part: &FilePart,
    front: usize,
    reason: &str,
) -> Result<bool> {
    let (readable, error) = readable_front(part);
    match error {
        None => Ok(readable == front && reason.is_empty()),
        Some(Error::Corruption(text)) => Ok(readable == front && text.as_str() == reason),
        Some(e) => Err(e),
    }
}
