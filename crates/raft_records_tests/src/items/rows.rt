//! Items, and what they say, with their bytes: those that raft-engine 0.4.2 writes and reads, and others that are
//! cut short or wrong in one place.

use raft_records::{AtomicGroupStatus, OpType};

/// What an item does to its region.
#[derive(Clone, Copy)]
pub(super) enum Content {
    Clean,
    Compact(u64),
    Truncate(u64),
    /// A key and its value.
    Put(&'static [u8], Option<&'static [u8]>),
    /// A key, and a value that isn't written.
    Delete(&'static [u8], Option<&'static [u8]>),
    /// Entries, each with its index, and its offset and its length in the entry bytes.
    Entries(&'static [(u64, u32, u32)]),
}

/// A content, and its bytes; none where it can't be written.
pub(super) type ContentRow = (Content, &'static [u8]);

/// The greatest index that an entry can have.
const GREATEST: u64 = 18_446_744_073_709_551_614;

static CONTENTS: [ContentRow; 28] = [
    (Content::Clean, b"\x01"),
    (Content::Compact(7), b"\x02\x07"),
    (Content::Compact(300), b"\x02\xac\x02"),
    (
        Content::Compact(u64::MAX),
        b"\x02\xff\xff\xff\xff\xff\xff\xff\xff\xff\x01",
    ),
    (Content::Truncate(7), b"\x03\x07"),
    (Content::Truncate(300), b"\x03\xac\x02"),
    (
        Content::Put(b"put", Some(b"put_v")),
        b"\x01\x03\x70\x75\x74\x05\x70\x75\x74\x5f\x76",
    ),
    (Content::Put(b"", Some(b"")), b"\x01\x00\x00"),
    (Content::Put(b"k", Some(&[0xff; 130])), LONG_PUT),
    (Content::Put(b"k", None), b""),
    (Content::Put(b"__\x01", None), b""),
    (Content::Delete(b"del", None), b"\x02\x03\x64\x65\x6c"),
    (
        Content::Delete(b"del", Some(b"del_v")),
        b"\x02\x03\x64\x65\x6c",
    ),
    (Content::Delete(b"", None), b"\x02\x00"),
    (Content::Entries(&[]), b"\x00"),
    (
        Content::Entries(&[(10, 0, 1), (11, 1, 1), (12, 2, 1)]),
        b"\x03\x0a\x01\x02\x03",
    ),
    (
        Content::Entries(&[(10, 0, 2), (11, 2, 1)]),
        b"\x02\x0a\x02\x03",
    ),
    (
        Content::Entries(&[(7, 0, 0), (8, 0, 0), (9, 0, 5), (10, 5, 0)]),
        b"\x04\x07\x00\x00\x05\x05",
    ),
    (
        Content::Entries(&[(300, 0, 128), (301, 128, 16_384), (302, 16_512, 1)]),
        b"\x03\xac\x02\x80\x01\x80\x81\x01\x81\x81\x01",
    ),
    (
        Content::Entries(&[(GREATEST, 0, 1)]),
        b"\x01\xfe\xff\xff\xff\xff\xff\xff\xff\xff\x01\x01",
    ),
    (
        Content::Entries(&[(1 << 56, 0, u32::MAX)]),
        b"\x01\x80\x80\x80\x80\x80\x80\x80\x80\x01\xff\xff\xff\xff\x0f",
    ),
    (Content::Entries(&[(10, 0, 1), (12, 1, 1)]), b""),
    (Content::Entries(&[(10, 0, 1), (10, 1, 1)]), b""),
    (Content::Entries(&[(11, 0, 1), (10, 1, 1)]), b""),
    (Content::Entries(&[(u64::MAX, 0, 1)]), b""),
    (Content::Entries(&[(10, 0, 2), (11, 1, 1)]), b""),
    (Content::Entries(&[(10, 0, 2), (11, 3, 1)]), b""),
    (
        Content::Entries(&[(10, 0, u32::MAX), (11, u32::MAX, 1)]),
        b"",
    ),
];

/// A put of a key of one byte, with a value of 130.
const LONG_PUT: &[u8] = b"\x01\x01k\x82\x01\
    \xff\xff\xff\xff\xff\xff\xff\xff\xff\xff\xff\xff\xff\xff\xff\xff\xff\xff\xff\xff\xff\xff\xff\xff\xff\xff\
    \xff\xff\xff\xff\xff\xff\xff\xff\xff\xff\xff\xff\xff\xff\xff\xff\xff\xff\xff\xff\xff\xff\xff\xff\xff\xff\
    \xff\xff\xff\xff\xff\xff\xff\xff\xff\xff\xff\xff\xff\xff\xff\xff\xff\xff\xff\xff\xff\xff\xff\xff\xff\xff\
    \xff\xff\xff\xff\xff\xff\xff\xff\xff\xff\xff\xff\xff\xff\xff\xff\xff\xff\xff\xff\xff\xff\xff\xff\xff\xff\
    \xff\xff\xff\xff\xff\xff\xff\xff\xff\xff\xff\xff\xff\xff\xff\xff\xff\xff\xff\xff\xff\xff\xff\xff\xff\xff";

/// Returns the rows of contents.
pub(super) fn content_rows() -> &'static [ContentRow] {
    &CONTENTS
}

/// The form in which bytes are read.
#[derive(Clone, Copy)]
pub(super) enum Form {
    /// An item, before whose entries there are no entry bytes.
    Item,
    /// A content without region and type, before whose entries there is one entry byte.
    Command,
    KeyValue,
    Entries,
}

/// What comes of reading bytes from their start on.
#[derive(Clone, Copy)]
pub(super) enum Read {
    /// An item, which is written as the same bytes: how many entry bytes come before those of the next item, and how
    /// many bytes are left.
    Item(u32, usize),
    /// An error that names an unknown type, with its text.
    Unrecognized(&'static str),
    Corruption,
    /// An error: a number ends too early, or there is no byte for the type of a command or of a change of a key.
    Codec,
    /// An error: a number doesn't end.
    Endless,
    /// An error: there is no byte for the type of an item.
    Io,
}

/// The form in which bytes are read, the bytes, and what comes of it.
pub(super) type ReadRow = (Form, &'static [u8], Read);

/// In some rows a count or a length is 2^63, with no bytes behind it.
static READINGS: [ReadRow; 83] = [
    (Form::Item, b"", Read::Codec),
    (Form::Item, b"\x01", Read::Io),
    (Form::Item, b"\x01\x01", Read::Codec),
    (Form::Item, b"\x01\x01\x02", Read::Codec),
    (Form::Item, b"\x01\x01\x02\x01", Read::Codec),
    (Form::Item, b"\x01\x02\x01", Read::Item(0, 0)),
    (Form::Item, b"\x01\x02\x02", Read::Codec),
    (Form::Item, b"\x01\x02\x03", Read::Codec),
    (Form::Item, b"\x01\x02\x03\x07", Read::Item(0, 0)),
    (Form::Item, b"\x01\x02\x03\xac", Read::Codec),
    (Form::Item, b"\x01\x02\x03\xac\x02", Read::Item(0, 0)),
    (
        Form::Item,
        b"\x01\x02\x04\x07",
        Read::Unrecognized("Unrecognized command type: 4"),
    ),
    (Form::Item, b"\x01\x01\x02\x07", Read::Codec),
    (Form::Item, b"\x01\x02", Read::Codec),
    (
        Form::Item,
        b"\x01\x02\x07",
        Read::Unrecognized("Unrecognized command type: 7"),
    ),
    (Form::Item, b"\x01\x02\x02\x07", Read::Item(0, 0)),
    (Form::Item, b"\x01\x03", Read::Codec),
    (Form::Item, b"\x01\x03\x01", Read::Codec),
    (Form::Item, b"\x01\x03\x01\x03put", Read::Codec),
    (Form::Item, b"\x01\x03\x02\x00", Read::Item(0, 0)),
    (Form::Item, b"\x01\x03\x02", Read::Codec),
    (
        Form::Item,
        b"\x01\x03\x00",
        Read::Unrecognized("Unrecognized op type: 0"),
    ),
    (
        Form::Item,
        b"\x01\x03\x03",
        Read::Unrecognized("Unrecognized op type: 3"),
    ),
    (
        Form::Item,
        b"\x01\x03\x01\x03put\x05put_v",
        Read::Item(0, 0),
    ),
    (
        Form::Item,
        b"\x09\x03\x01\x03__\x01\x01\x00",
        Read::Item(0, 0),
    ),
    (Form::Item, b"\x01\x03\x01\x05p", Read::Corruption),
    (
        Form::Item,
        b"\x01\x04",
        Read::Unrecognized("Unrecognized log item type: 4"),
    ),
    (
        Form::Item,
        b"\x01\x00",
        Read::Unrecognized("Unrecognized log item type: 0"),
    ),
    (Form::Item, b"\x80\x01\x02\x01", Read::Item(0, 0)),
    (Form::Item, b"\x01\x01\x03\x01", Read::Codec),
    (Form::Item, b"\x01\x01\x00\x0a", Read::Item(0, 1)),
    (Form::Item, b"\x01\x01\x02\x0a\x01\x05", Read::Item(5, 0)),
    (
        Form::Item,
        b"\x01\x01\x03\x0a\x01\x02\x03",
        Read::Item(3, 0),
    ),
    (Form::Item, b"\x01\x01\x02\x05\x03\x02", Read::Corruption),
    (
        Form::Item,
        b"\x01\x01\x01\xfe\xff\xff\xff\xff\xff\xff\xff\xff\x01\x01",
        Read::Item(1, 0),
    ),
    (
        Form::Item,
        b"\x01\x01\x02\xfe\xff\xff\xff\xff\xff\xff\xff\xff\x01\x01\x01",
        Read::Corruption,
    ),
    (Form::Command, b"\x01", Read::Item(1, 0)),
    (Form::Command, b"\x02\x07", Read::Item(1, 0)),
    (Form::Command, b"\x02\xac\x02", Read::Item(1, 0)),
    (
        Form::Command,
        b"\x02\xff\xff\xff\xff\xff\xff\xff\xff\xff\x01",
        Read::Item(1, 0),
    ),
    (Form::Command, b"\x03\x07", Read::Item(1, 0)),
    (Form::Command, b"\x03\xac\x02", Read::Item(1, 0)),
    (
        Form::Command,
        b"\x03\xff\xff\xff\xff\xff\xff\xff\xff\xff\x01",
        Read::Item(1, 0),
    ),
    (Form::Command, b"", Read::Codec),
    (Form::Command, b"\x02", Read::Codec),
    (Form::Command, b"\x03", Read::Codec),
    (Form::Command, b"\x03\xac", Read::Codec),
    (
        Form::Command,
        b"\x04\x07",
        Read::Unrecognized("Unrecognized command type: 4"),
    ),
    (
        Form::Command,
        b"\x07",
        Read::Unrecognized("Unrecognized command type: 7"),
    ),
    (Form::KeyValue, b"\x01\x03put\x05put_v", Read::Item(1, 0)),
    (Form::KeyValue, b"\x01\x00\x00", Read::Item(1, 0)),
    (Form::KeyValue, b"\x01\x03__\x01\x01\x02", Read::Item(1, 0)),
    (Form::KeyValue, LONG_PUT, Read::Item(1, 0)),
    (Form::KeyValue, b"\x02\x03del", Read::Item(1, 0)),
    (Form::KeyValue, b"\x02\x00", Read::Item(1, 0)),
    (
        Form::KeyValue,
        b"\x00\x00",
        Read::Unrecognized("Unrecognized op type: 0"),
    ),
    (
        Form::KeyValue,
        b"\x03\x01k",
        Read::Unrecognized("Unrecognized op type: 3"),
    ),
    (
        Form::KeyValue,
        b"\xff",
        Read::Unrecognized("Unrecognized op type: 255"),
    ),
    (Form::KeyValue, b"", Read::Codec),
    (Form::KeyValue, b"\x01", Read::Codec),
    (Form::KeyValue, b"\x02\x80", Read::Codec),
    (Form::KeyValue, b"\x01\x01k", Read::Codec),
    (
        Form::KeyValue,
        b"\x02\x80\x80\x80\x80\x80\x80\x80\x80\x80\x02k",
        Read::Endless,
    ),
    (Form::KeyValue, b"\x01\x05p", Read::Corruption),
    (Form::KeyValue, b"\x02\x02k", Read::Corruption),
    (Form::KeyValue, b"\x01\x01k\x02v", Read::Corruption),
    (
        Form::KeyValue,
        b"\x02\x80\x80\x80\x80\x80\x80\x80\x80\x80\x01key",
        Read::Corruption,
    ),
    (
        Form::KeyValue,
        b"\x01\x00\x80\x80\x80\x80\x80\x80\x80\x80\x80\x01val",
        Read::Corruption,
    ),
    (Form::Entries, b"\x00", Read::Item(1, 0)),
    (Form::Entries, b"\x03\x0a\x01\x02\x03", Read::Item(3, 0)),
    (Form::Entries, b"\x02\x0a\x02\x03", Read::Item(3, 0)),
    (Form::Entries, b"\x04\x07\x01\x01\x05\x05", Read::Item(5, 0)),
    (
        Form::Entries,
        b"\x03\xac\x02\x80\x01\x80\x81\x01\x81\x81\x01",
        Read::Item(16_513, 0),
    ),
    (
        Form::Entries,
        b"\x01\xfe\xff\xff\xff\xff\xff\xff\xff\xff\x01\x01",
        Read::Item(1, 0),
    ),
    (
        Form::Entries,
        b"\x01\x80\x80\x80\x80\x80\x80\x80\x80\x01\xff\xff\xff\xff\x0f",
        Read::Item(u32::MAX, 0),
    ),
    (Form::Entries, b"", Read::Codec),
    (Form::Entries, b"\x02\x0a\x01", Read::Codec),
    (
        Form::Entries,
        b"\x80\x80\x80\x80\x80\x80\x80\x80\x80\x01\x05\x01\x01",
        Read::Codec,
    ),
    (Form::Entries, b"\x02\x05\x03\x02", Read::Corruption),
    (Form::Entries, b"\x01\x05\x00", Read::Corruption),
    (
        Form::Entries,
        b"\x01\x05\x80\x80\x80\x80\x10",
        Read::Corruption,
    ),
    (
        Form::Entries,
        b"\x01\xff\xff\xff\xff\xff\xff\xff\xff\xff\x01\x01",
        Read::Corruption,
    ),
    (
        Form::Entries,
        b"\x02\xfe\xff\xff\xff\xff\xff\xff\xff\xff\x01\x01\x01",
        Read::Corruption,
    ),
];

/// Returns the rows of bytes that are read or refused.
pub(super) fn read_rows() -> &'static [ReadRow] {
    &READINGS
}

/// The form in which bytes are read, the bytes, and what each shorter prefix of them lacks, from the empty one on: `n`
/// a number, `i` the type of an item, `t` the type of a command or of a change of a key, `k` bytes of a key or a value.
pub(super) type PrefixRow = (Form, &'static [u8], &'static [u8]);

static FRONTS: [PrefixRow; 14] = [
    (Form::Item, b"\x01\x02\x01", b"nit"),
    (Form::Item, b"\x01\x02\x02\x07", b"nitn"),
    (Form::Item, b"\x80\x01\x02\x03\xac\x02", b"nnitnn"),
    (
        Form::Item,
        b"\x01\x03\x01\x03put\x05put_v",
        b"nitnkkknkkkkk",
    ),
    (Form::Item, b"\xac\x02\x03\x02\x03del", b"nnitnkkk"),
    (Form::Item, b"\x07\x01\x02\x0a\x02\x03", b"ninnnn"),
    (
        Form::Item,
        b"\x07\x01\x02\xac\x02\x80\x01\x80\x81\x01",
        b"ninnnnnnnn",
    ),
    (Form::Command, b"\x01", b"t"),
    (
        Form::Command,
        b"\x02\xff\xff\xff\xff\xff\xff\xff\xff\xff\x01",
        b"tnnnnnnnnnn",
    ),
    (Form::Command, b"\x03\xac\x02", b"tnn"),
    (Form::KeyValue, b"\x01\x00\x00", b"tnn"),
    (Form::KeyValue, b"\x01\x01k\x82\x00vv", b"tnknnkk"),
    (Form::KeyValue, b"\x02\x03del", b"tnkkk"),
    (Form::Entries, b"\x03\xac\x02\x01\x02\x03", b"nnnnnn"),
];

/// Returns the rows of bytes whose shorter prefixes are refused.
pub(super) fn prefix_rows() -> &'static [PrefixRow] {
    &FRONTS
}

/// How an item of region 7 changes the group markers' key, the value, and the group marker that it is parsed as, if it
/// is one, or the reason why it is refused.
pub(super) type MarkerRow = (
    OpType,
    Option<&'static [u8]>,
    std::result::Result<Option<(u64, AtomicGroupStatus)>, &'static str>,
);

static MARKERS: [MarkerRow; 11] = [
    (
        OpType::Put,
        Some(b"\x00"),
        Ok(Some((7, AtomicGroupStatus::Begin))),
    ),
    (
        OpType::Put,
        Some(b"\x01"),
        Ok(Some((7, AtomicGroupStatus::Middle))),
    ),
    (
        OpType::Put,
        Some(b"\x02"),
        Ok(Some((7, AtomicGroupStatus::End))),
    ),
    (OpType::Put, None, Ok(None)),
    (OpType::Put, Some(b""), Ok(None)),
    (OpType::Put, Some(b"\x00\x00"), Ok(None)),
    (OpType::Del, None, Ok(None)),
    (OpType::Del, Some(b"\x00"), Ok(None)),
    (
        OpType::Put,
        Some(b"\x03"),
        Err("Unrecognized atomic group status: 3"),
    ),
    (
        OpType::Put,
        Some(b"\x04"),
        Err("Unrecognized atomic group status: 4"),
    ),
    (
        OpType::Put,
        Some(b"\xff"),
        Err("Unrecognized atomic group status: 255"),
    ),
];

/// Returns the rows of group markers.
pub(super) fn marker_rows() -> &'static [MarkerRow] {
    &MARKERS
}
