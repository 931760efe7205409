//! Rows of batches, as raft-engine 0.4.2 makes and reads them.

/// The bytes that a batch has, and what is read from them.
#[derive(Clone, Copy)]
pub(super) struct Row {
    /// The approximate size of the open batch.
    pub(super) size: usize,
    /// Its bytes before the last checksum.
    pub(super) front: &'static [u8],
    /// Its last checksum in version 1, and in version 2 in the files 12, 13 and 2^64 - 1; empty where it has no bytes.
    pub(super) seals: [&'static [u8]; 4],
    /// The offset of its item batch.
    pub(super) offset: usize,
    /// Its entry bytes.
    pub(super) entry_bytes: &'static [u8],
    /// The approximate size of its item batch.
    pub(super) item_batch_size: usize,
}

/// Returns the rows of log batches.
pub(super) fn log_batch_rows() -> &'static [Row] {
    &ROWS
}

/// All rows, in the order of their numbers.
static ROWS: [Row; 11] = [
    EMPTY,
    CLEAN,
    COMPACT,
    TRUNCATE,
    KEY_VALUES,
    LINES,
    MERGED,
    ONE_OF_EACH,
    BEGIN,
    MIDDLE,
    END,
];

/// Without items.
const EMPTY: Row = Row {
    size: 0,
    front: b"",
    seals: [b"", b"", b"", b""],
    offset: 0,
    entry_bytes: b"",
    item_batch_size: 12,
};

/// Region 1 is cleaned.
const CLEAN: Row = Row {
    size: 42,
    front: b"\x00\x00\x00\x00\x00\x00\x18\x00\x00\x00\x00\x00\x00\x00\x00\x10\x01\x01\x02\x01",
    seals: [
        b"\x5a\x80\x0b\xdd",
        b"\x56\x80\x0b\xdd",
        b"\x57\x80\x0b\xdd",
        b"\xa5\x7f\xf4\x22",
    ],
    offset: 16,
    entry_bytes: b"",
    item_batch_size: 22,
};

/// Region 300 is compacted to 2^40.
const COMPACT: Row = Row {
    size: 50,
    front: b"\x00\x00\x00\x00\x00\x00\x1f\x00\x00\x00\x00\x00\x00\x00\x00\x10\x01\xac\x02\x02\x02\x80\x80\x80\x80\x80\x20",
    seals: [
        b"\xd3\x0b\xf6\x41",
        b"\xdf\x0b\xf6\x41",
        b"\xde\x0b\xf6\x41",
        b"\x2c\xf4\x09\xbe",
    ],
    offset: 16,
    entry_bytes: b"",
    item_batch_size: 30,
};

/// Region 300 is truncated to 2^40, which raft-engine has no command for: its checksums are calculated.
const TRUNCATE: Row = Row {
    size: 50,
    front: b"\x00\x00\x00\x00\x00\x00\x1f\x00\x00\x00\x00\x00\x00\x00\x00\x10\x01\xac\x02\x02\x03\x80\x80\x80\x80\x80\x20",
    seals: [
        b"\x67\x00\x81\xe7",
        b"\x6b\x00\x81\xe7",
        b"\x6a\x00\x81\xe7",
        b"\x98\xff\x7e\x18",
    ],
    offset: 16,
    entry_bytes: b"",
    item_batch_size: 30,
};

/// A put and a delete with an empty key, in region 1.
const KEY_VALUES: Row = Row {
    size: 92,
    front: b"\x00\x00\x00\x00\x00\x00\x26\x00\x00\x00\x00\x00\x00\x00\x00\x10\x02\x01\x03\x01\x03\x70\x75\x74\x05\x70\x75\x74\x5f\x76\x01\x03\x02\x00",
    seals: [
        b"\xf3\xf9\x46\xa8",
        b"\xff\xf9\x46\xa8",
        b"\xfe\xf9\x46\xa8",
        b"\x0c\x06\xb9\x57",
    ],
    offset: 16,
    entry_bytes: b"",
    item_batch_size: 72,
};

/// Entries 10 and 11 of region 7.
const LINES: Row = Row {
    size: 76,
    front: b"\x00\x00\x00\x00\x00\x00\x22\x00\x00\x00\x00\x00\x00\x00\x00\x17\x61\x62\x63\xc2\x41\x24\x35\x01\x07\x01\x02\x0a\x02\x03",
    seals: [
        b"\xa7\xb3\xdf\x17",
        b"\xab\xb3\xdf\x17",
        b"\xaa\xb3\xdf\x17",
        b"\x58\x4c\x20\xe8",
    ],
    offset: 23,
    entry_bytes: b"\x61\x62\x63",
    item_batch_size: 53,
};

/// Entries 10 to 12 of region 7, and then 1 and 2 of region 8.
const MERGED: Row = Row {
    size: 127,
    front: b"\x00\x00\x00\x00\x00\x00\x2b\x00\x00\x00\x00\x00\x00\x00\x00\x19\x78\x78\x78\x78\x78\x78\xe7\xd1\x42\x02\x07\x01\x03\x0a\x01\x02\x03\x08\x01\x02\x01\x04\x05",
    seals: [
        b"\xdc\x30\x8b\x52",
        b"\xd0\x30\x8b\x52",
        b"\xd1\x30\x8b\x52",
        b"\x23\xcf\x74\xad",
    ],
    offset: 25,
    entry_bytes: b"\x78\x78\x78\x78\x78",
    item_batch_size: 102,
};

/// Three entries and one item of each other kind.
const ONE_OF_EACH: Row = Row {
    size: 197,
    front: b"\x00\x00\x00\x00\x00\x00\x3f\x00\x00\x00\x00\x00\x00\x00\x00\x17\x61\x62\x63\xc2\x41\x24\x35\x06\x07\x01\x03\x0a\x02\x02\x03\x08\x02\x01\x07\x02\x02\x0b\x09\x03\x01\x01\x6b\x01\x76\x09\x03\x02\x01\x6a\x09\x03\x01\x03\x5f\x5f\x01\x01\x00",
    seals: [
        b"\xcf\x22\x56\x23",
        b"\xc3\x22\x56\x23",
        b"\xc2\x22\x56\x23",
        b"\x30\xdd\xa9\xdc",
    ],
    offset: 23,
    entry_bytes: b"\x61\x62\x63",
    item_batch_size: 174,
};

/// A group marker of group 9 that begins it. Of the checksums of the three group markers raft-engine made this row's in
/// file 12 of version 2; the others are calculated.
const BEGIN: Row = Row {
    size: 62,
    front: b"\x00\x00\x00\x00\x00\x00\x1e\x00\x00\x00\x00\x00\x00\x00\x00\x10\x01\x09\x03\x01\x03\x5f\x5f\x01\x01\x00",
    seals: [
        b"\x72\xd7\x73\x3f",
        b"\x7e\xd7\x73\x3f",
        b"\x7f\xd7\x73\x3f",
        b"\x8d\x28\x8c\xc0",
    ],
    offset: 16,
    entry_bytes: b"",
    item_batch_size: 42,
};

/// One that continues it.
const MIDDLE: Row = Row {
    front: b"\x00\x00\x00\x00\x00\x00\x1e\x00\x00\x00\x00\x00\x00\x00\x00\x10\x01\x09\x03\x01\x03\x5f\x5f\x01\x01\x01",
    seals: [
        b"\xe4\xe7\x74\x48",
        b"\xe8\xe7\x74\x48",
        b"\xe9\xe7\x74\x48",
        b"\x1b\x18\x8b\xb7",
    ],
    ..BEGIN
};

/// One that ends it.
const END: Row = Row {
    front: b"\x00\x00\x00\x00\x00\x00\x1e\x00\x00\x00\x00\x00\x00\x00\x00\x10\x01\x09\x03\x01\x03\x5f\x5f\x01\x01\x02",
    seals: [
        b"\x5e\xb6\x7d\xd1",
        b"\x52\xb6\x7d\xd1",
        b"\x53\xb6\x7d\xd1",
        b"\xa1\x49\x82\x2e",
    ],
    ..BEGIN
};
