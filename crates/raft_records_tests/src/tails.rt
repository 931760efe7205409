//! Tests what is found where a file can't be read any further.

use crate::file_parts::FILE;
use crate::read_batches::{BATCHES, FIRST};
use raft_base::FileSeq;
use raft_records::{FilePart, Result, Version};
use raft_tail::{is_broken_off, next_sound, signed_elsewhere};
use raft_trials::again;
use std::alloc::Global;
use std::process::Abort;

/// Bytes of file 12, and what is found from one of them on.
struct Row {
    version: Version,
    bytes: &'static [u8],
    from: usize,
    /// Where the first batch of this file begins, if there is one.
    sound: Option<usize>,
    /// Where the first batch begins that is signed for another file, and the number of that file, if there is one.
    elsewhere: Option<(usize, FileSeq)>,
    /// Whether all bytes from there on can be what is left of a single batch.
    broken: bool,
}

static ROWS: [Row; 20] = [
    // Two whole batches, from the first byte and from the second: what stands there can be a header of 8,704 bytes.
    Row {
        version: Version::V2,
        bytes: b"\x00\x00\x00\x00\x00\x00\x22\x00\x00\x00\x00\x00\x00\x00\x00\x17abc\xc2A\x245\x01\x07\x01\x02\x0a\x02\x03\xab\xb3\xdf\x17\x00\x00\x00\x00\x00\x00\x18\x00\x00\x00\x00\x00\x00\x00\x00\x10\x01\x01\x02\x01V\x80\x0b\xdd",
        from: 0,
        sound: Some(0),
        elsewhere: None,
        broken: false,
    },
    Row {
        version: Version::V2,
        bytes: b"\x00\x00\x00\x00\x00\x00\x22\x00\x00\x00\x00\x00\x00\x00\x00\x17abc\xc2A\x245\x01\x07\x01\x02\x0a\x02\x03\xab\xb3\xdf\x17\x00\x00\x00\x00\x00\x00\x18\x00\x00\x00\x00\x00\x00\x00\x00\x10\x01\x01\x02\x01V\x80\x0b\xdd",
        from: 1,
        sound: Some(34),
        elsewhere: None,
        broken: true,
    },
    // The first one gives a length that passes the end: its items are whole.
    Row {
        version: Version::V2,
        bytes: b"\x00\x00\x00\x00\x00\x00\xa2\x00\x00\x00\x00\x00\x00\x00\x00\x17abc\xc2A\x245\x01\x07\x01\x02\x0a\x02\x03\xab\xb3\xdf\x17\x00\x00\x00\x00\x00\x00\x18\x00\x00\x00\x00\x00\x00\x00\x00\x10\x01\x01\x02\x01V\x80\x0b\xdd",
        from: 0,
        sound: Some(34),
        elsewhere: None,
        broken: false,
    },
    // It gives one that ends inside its header.
    Row {
        version: Version::V2,
        bytes: b"\x00\x00\x00\x00\x00\x00\x02\x00\x00\x00\x00\x00\x00\x00\x00\x17abc\xc2A\x245\x01\x07\x01\x02\x0a\x02\x03\xab\xb3\xdf\x17\x00\x00\x00\x00\x00\x00\x18\x00\x00\x00\x00\x00\x00\x00\x00\x10\x01\x01\x02\x01V\x80\x0b\xdd",
        from: 0,
        sound: Some(34),
        elsewhere: None,
        broken: false,
    },
    // A bit of its checksum is another too: it can be the first part of a longer batch.
    Row {
        version: Version::V2,
        bytes: b"\x00\x00\x00\x00\x00\x00\xa2\x00\x00\x00\x00\x00\x00\x00\x00\x17abc\xc2A\x245\x01\x07\x01\x02\x0a\x02\x03\xab\xb3\xdf\x16\x00\x00\x00\x00\x00\x00\x18\x00\x00\x00\x00\x00\x00\x00\x00\x10\x01\x01\x02\x01V\x80\x0b\xdd",
        from: 0,
        sound: Some(34),
        elsewhere: None,
        broken: true,
    },
    // A whole batch, of which the last byte, all behind its header, and a byte of that are missing.
    Row {
        version: Version::V2,
        bytes: b"\x00\x00\x00\x00\x00\x00\x22\x00\x00\x00\x00\x00\x00\x00\x00\x17abc\xc2A\x245\x01\x07\x01\x02\x0a\x02\x03\xab\xb3\xdf",
        from: 0,
        sound: None,
        elsewhere: None,
        broken: true,
    },
    Row {
        version: Version::V2,
        bytes: b"\x00\x00\x00\x00\x00\x00\x22\x00\x00\x00\x00\x00\x00\x00\x00\x17",
        from: 0,
        sound: None,
        elsewhere: None,
        broken: true,
    },
    Row {
        version: Version::V2,
        bytes: b"\x00\x00\x00\x00\x00\x00\x22\x00\x00\x00\x00\x00\x00\x00\x00",
        from: 0,
        sound: None,
        elsewhere: None,
        broken: true,
    },
    // A batch whose last byte is missing, and whose entry is a whole batch.
    Row {
        version: Version::V2,
        bytes: b"\x00\x00\x00\x00\x00\x006\x00\x00\x00\x00\x00\x00\x00\x00\x2c\x00\x00\x00\x00\x00\x00\x18\x00\x00\x00\x00\x00\x00\x00\x00\x10\x01\x01\x02\x01V\x80\x0b\xdd\x88\xc5C8\x01\x07\x01\x01\x0a\x18\x94\xd3C",
        from: 0,
        sound: Some(16),
        elsewhere: None,
        broken: true,
    },
    // Zeros, and none at all.
    Row {
        version: Version::V2,
        bytes: &[0; 40],
        from: 0,
        sound: None,
        elsewhere: None,
        broken: false,
    },
    Row {
        version: Version::V2,
        bytes: &[0; 40],
        from: 25,
        sound: None,
        elsewhere: None,
        broken: true,
    },
    Row {
        version: Version::V2,
        bytes: b"",
        from: 0,
        sound: None,
        elsewhere: None,
        broken: true,
    },
    // Noise, and a batch behind it.
    Row {
        version: Version::V2,
        bytes: b"\x25\x3aw9kQ\x7ez\x290v\x3d\x2bu\x5fR\x5be1H\x00\x00\x00\x00\x00\x00\x18\x00\x00\x00\x00\x00\x00\x00\x00\x10\x01\x01\x02\x01V\x80\x0b\xdd",
        from: 0,
        sound: Some(20),
        elsewhere: None,
        broken: false,
    },
    // Two batches that were written for file 1.
    Row {
        version: Version::V2,
        bytes: b"\x00\x00\x00\x00\x00\x00\x22\x00\x00\x00\x00\x00\x00\x00\x00\x17abc\xc2A\x245\x01\x07\x01\x02\x0a\x02\x03\xa6\xb3\xdf\x17\x00\x00\x00\x00\x00\x00\x18\x00\x00\x00\x00\x00\x00\x00\x00\x10\x01\x01\x02\x01\x5b\x80\x0b\xdd",
        from: 0,
        sound: None,
        elsewhere: Some((0, 1)),
        broken: false,
    },
    Row {
        version: Version::V2,
        bytes: b"\x00\x00\x00\x00\x00\x00\x22\x00\x00\x00\x00\x00\x00\x00\x00\x17abc\xc2A\x245\x01\x07\x01\x02\x0a\x02\x03\xa6\xb3\xdf\x17\x00\x00\x00\x00\x00\x00\x18\x00\x00\x00\x00\x00\x00\x00\x00\x10\x01\x01\x02\x01\x5b\x80\x0b\xdd",
        from: 1,
        sound: None,
        elsewhere: Some((34, 1)),
        broken: true,
    },
    // One behind a batch of this file, which is written for the greatest file that is looked for; files that aren't.
    Row {
        version: Version::V2,
        bytes: b"\x00\x00\x00\x00\x00\x00\x22\x00\x00\x00\x00\x00\x00\x00\x00\x17abc\xc2A\x245\x01\x07\x01\x02\x0a\x02\x03\xab\xb3\xdf\x17\x00\x00\x00\x00\x00\x00\x18\x00\x00\x00\x00\x00\x00\x00\x00\x10\x01\x01\x02\x01\xa5\x7f\xf4\xdd",
        from: 0,
        sound: Some(0),
        elsewhere: Some((34, 16777215)),
        broken: false,
    },
    Row {
        version: Version::V2,
        bytes: b"\x00\x00\x00\x00\x00\x00\x18\x00\x00\x00\x00\x00\x00\x00\x00\x10\x01\x01\x02\x01Z\x80\x0b\xdc",
        from: 0,
        sound: None,
        elsewhere: None,
        broken: false,
    },
    Row {
        version: Version::V2,
        bytes: b"\x00\x00\x00\x00\x00\x00\x18\x00\x00\x00\x00\x00\x00\x00\x00\x10\x01\x01\x02\x01Z\x80\x0b\xdd",
        from: 0,
        sound: None,
        elsewhere: None,
        broken: false,
    },
    // Files of version 1 sign nothing.
    Row {
        version: Version::V1,
        bytes: b"\x00\x00\x00\x00\x00\x00\x22\x00\x00\x00\x00\x00\x00\x00\x00\x17abc\xc2A\x245\x01\x07\x01\x02\x0a\x02\x03\xa7\xb3\xdf\x17\x00\x00\x00\x00\x00\x00\x18\x00\x00\x00\x00\x00\x00\x00\x00\x10\x01\x01\x02\x01V\x80\x0b\xdd",
        from: 0,
        sound: Some(0),
        elsewhere: None,
        broken: false,
    },
    Row {
        version: Version::V1,
        bytes: b"\x00\x00\x00\x00\x00\x00\x22\x00\x00\x00\x00\x00\x00\x00\x00\x17abc\xc2A\x245\x01\x07\x01\x02\x0a\x02\x03\xab\xb3\xdf\x17\x00\x00\x00\x00\x00\x00\x18\x00\x00\x00\x00\x00\x00\x00\x00\x10\x01\x01\x02\x01Z\x80\x0b\xdd",
        from: 0,
        sound: Some(34),
        elsewhere: None,
        broken: false,
    },
];

/// Returns the rows of tails.
fn tail_rows() -> &'static [Row] {
    &ROWS
}

/// Returns these bytes as the part of file 12 from offset 100 on.
///
/// # Errors
///
/// `Memory` alone: the bytes end far below the highest offset.
fn part_with_bytes(alloc: Global, version: Version, bytes: &[u8]) -> Result<FilePart> {
    FilePart::new(FILE, version, 100, Vec::from_slice(alloc, bytes)?)
}

/// Tests whether the bytes from `at` on can be what is left of a single batch.
///
/// # Errors
///
/// Those of [`is_broken_off`].
fn is_rest_of_one_batch(part: &FilePart, at: usize) -> Result<bool> {
    if at > part.bytes().len() {
        return Ok(false);
    }
    is_broken_off(part, at)
}

/// Tests whether the next sound batch, the next one that is signed for another file, and whether the tail can be a
/// part of one batch, are as in a row.
///
/// # Errors
///
/// Those of [`next_sound`], [`signed_elsewhere`] and [`is_broken_off`]; `Memory`.
fn row_holds(alloc: Global, row: &Row) -> Result<bool> {
    let part = part_with_bytes(alloc, row.version, row.bytes)?;
    let found = (
        next_sound(&part, row.from)?,
        signed_elsewhere(&part, row.from)?,
    );
    Ok(found == (row.sound, row.elsewhere) && is_rest_of_one_batch(&part, row.from)? == row.broken)
}

/// Tests for each tail where the next sound batch is, where one signed for another file, and whether it is the rest
/// of one batch.
#[test]
fn torn_tails_are_told_from_damaged_batches(rt: HostRuntime) {
    assert!(rt; again!(check_each_tail_row(&rt, rt.alloc())).is_ok());
}

/// Asserts that each tail is told apart as [`row_holds`] tests.
///
/// # Errors
///
/// Those of [`row_holds`].
fn check_each_tail_row(rt: &impl Abort, alloc: Global) -> Result<()> {
    for row in tail_rows() {
        let from = row.from;
        assert!(rt; row_holds(alloc, row)?, "from {from}");
    }
    Ok(())
}

/// Tests that each shorter prefix of a batch can be what is left of one batch, and that the whole batch can't.
#[test]
fn only_shorter_prefixes_can_be_the_rest_of_a_batch(rt: HostRuntime) {
    assert!(rt; again!(check_prefixes_of_a_batch(&rt, rt.alloc())).is_ok());
}

/// Asserts that each shorter prefix of a batch with items of all kinds can be what is left of one batch, and that the
/// whole batch can't, also where its header gives a length that passes the end.
///
/// # Errors
///
/// Those of [`is_prefix_rest_of_one_batch`].
fn check_prefixes_of_a_batch(rt: &impl Abort, alloc: Global) -> Result<()> {
    for len in 0..=FIRST {
        assert!(rt;
            is_prefix_rest_of_one_batch(alloc, len, 0)? == (len < FIRST),
            "{len} bytes"
        );
        assert!(rt;
            is_prefix_rest_of_one_batch(alloc, len, 0x80)? == (len < FIRST),
            "{len} bytes"
        );
    }
    Ok(())
}

/// Tests whether the first `len` bytes of `BATCHES`, with some bits of the first length flipped, can be what is left of
/// a single batch.
///
/// # Errors
///
/// Those of [`is_broken_off`]; `Memory`.
fn is_prefix_rest_of_one_batch(alloc: Global, len: usize, bits: u8) -> Result<bool> {
    let mut bytes = Vec::from_slice(alloc, BATCHES)?;
    if let Some(byte) = bytes.get_mut(6) {
        *byte ^= bits;
    }
    bytes.truncate(len);
    is_rest_of_one_batch(&part_with_bytes(alloc, Version::V1, &bytes)?, 0)
}
