//! Tests bytes that are no header, no entry block or no item batch. The texts of the errors are those of raft-engine
//! 0.4.2, but for entry blocks that are cut short. So are the rows, but for compression type 1, which it knows, and a
//! few others.

use raft_records::{
    CompressionType, Error, FileBlockHandle, FileId, LogBatch, LogFileContext, LogItemBatch,
    LogQueue, Result, Version,
};
use raft_trials::again;
use std::alloc::Global;
use std::process::Abort;

/// The place of an entry block.
const PLACE: FileBlockHandle = FileBlockHandle {
    id: FileId {
        queue: LogQueue::Append,
        seq: 12,
    },
    offset: 16,
    len: 0,
};

/// The form in which bytes are read.
#[derive(Clone, Copy)]
enum Form {
    Header,
    /// An entry block of so many bytes.
    Block(usize),
    /// An item batch of an append file in a version, with the number of the file.
    Items(Version, u64),
}

/// The form in which bytes are read, the bytes, and the entry bytes that are read from them, none for an item batch
/// without items; or the text of the error. An empty text stands for `Codec`.
type Row = (
    Form,
    &'static [u8],
    std::result::Result<&'static [u8], &'static str>,
);

/// In the last three rows of headers more than one thing is wrong. The last four batches have a right checksum, and
/// claim to have more than they have: 2^40 items (none), 2^63 items (one), 2^40 entries (none), 2^63 entries (two).
static ROWS: [Row; 50] = [
    (Form::Header, b"", Err("Log batch header too short: 0")),
    (
        Form::Header,
        b"\x8d\xef\x02\xd2",
        Err("Log batch header too short: 4"),
    ),
    (Form::Header, b"\x00", Err("Log batch header too short: 1")),
    (
        Form::Header,
        b"\x00\x8d\xef\x02\xd3",
        Err("Log batch header too short: 5"),
    ),
    (
        Form::Header,
        b"\x01\x01\x02\x01\x07\x00\x00\x00",
        Err("Log batch header too short: 8"),
    ),
    (
        Form::Header,
        b"\x00\x00\x00\x00\x00\x00\x10\x00\x00\x00\x00\x00\x00\x00\x00\x0f",
        Err("Log item offset is smaller than log batch header length"),
    ),
    (
        Form::Header,
        b"\x00\x00\x00\x00\x00\x00\x10\x00\x00\x00\x00\x00\x00\x00\x00\x11",
        Err("Log item offset exceeds log batch length"),
    ),
    (
        Form::Header,
        b"\x00\x00\x00\x00\x00\x00\x18\x02\x00\x00\x00\x00\x00\x00\x00\x10\x01",
        Err("Unrecognized compression type: 2"),
    ),
    (
        Form::Header,
        b"\x00\x00\x00\x00\x00\x00\x18\x00\x00\x00\x00\x00\x00\x00\x10",
        Err("Log batch header too short: 15"),
    ),
    (
        Form::Header,
        b"\x00\x00\x00\x00\x00\x00\x18\x01\x00\x00\x00\x00\x00\x00\x00\x10",
        Err("Unrecognized compression type: 1"),
    ),
    (
        Form::Header,
        b"\x00\x00\x00\x00\x00\x00\x0a\xff\x00\x00\x00\x00\x00\x00\x00\x0f",
        Err("Unrecognized compression type: 255"),
    ),
    (
        Form::Header,
        b"\x00\x00\x00\x00\x00\x00\x0a\x00\x00\x00\x00\x00\x00\x00\x00\x0f",
        Err("Log item offset exceeds log batch length"),
    ),
    (
        Form::Header,
        b"\x00\x00\x00\x00\x00\x00\x0a\x02\x00\x00\x00\x00\x00\x00\x00",
        Err("Log batch header too short: 15"),
    ),
    (Form::Block(0), b"", Ok(b"")),
    (Form::Block(0), b"abc\xc2\x41\x24\x35", Ok(b"")),
    (Form::Block(7), b"abc\xc2\x41\x24\x35", Ok(b"abc")),
    (Form::Block(7), b"abc\xc2\x41\x24\x35\x00", Ok(b"abc")),
    (Form::Block(1), b"\xc2", Err("Content too short 1")),
    (
        Form::Block(4),
        b"\xc2\x41\x24\x35",
        Err("Content too short 4"),
    ),
    (
        Form::Block(7),
        b"abc\xc2\x41\x24\x36",
        Err("Checksum expected 908345794 but got 891568578"),
    ),
    (
        Form::Block(7),
        b"abb\xc2\x41\x24\x35",
        Err("Checksum expected 891568578 but got 1109619028"),
    ),
    (
        Form::Block(5),
        b"\x00\x8e\xef\x02\xd2",
        Err("Checksum expected 3523407758 but got 3523407757"),
    ),
    (
        Form::Block(8),
        b"abc\xc2\x41\x24\x35",
        Err("an entry block of 8 bytes is cut short"),
    ),
    (
        Form::Block(16),
        b"abc\xc2\x41\x24\x35",
        Err("an entry block of 16 bytes is cut short"),
    ),
    (
        Form::Block(usize::MAX),
        b"abc\xc2\x41\x24\x35",
        Err("an entry block of 18446744073709551615 bytes is cut short"),
    ),
    (
        Form::Items(Version::V1, 12),
        b"\x00\x81\xef\x02\xd2",
        Err("Checksum expected 3523407745 but got 3523407757"),
    ),
    (
        Form::Items(Version::V1, 12),
        b"\x00\x8d\xef\x02\xd2",
        Ok(b""),
    ),
    (
        Form::Items(Version::V2, 12),
        b"\x00\x81\xef\x02\xd2",
        Ok(b""),
    ),
    (
        Form::Items(Version::V2, 13),
        b"\x00\x80\xef\x02\xd2",
        Ok(b""),
    ),
    (
        Form::Items(Version::V2, u64::MAX),
        b"\x00\x72\x10\xfd\x2d",
        Ok(b""),
    ),
    (
        Form::Items(Version::V1, 13),
        b"\x00\x81\xef\x02\xd2",
        Err("Checksum expected 3523407745 but got 3523407757"),
    ),
    (
        Form::Items(Version::V2, 13),
        b"\x00\x81\xef\x02\xd2",
        Err("Checksum expected 3523407756 but got 3523407757"),
    ),
    (
        Form::Items(Version::V1, 4_294_967_308),
        b"\x00\x81\xef\x02\xd2",
        Err("Checksum expected 3523407745 but got 3523407757"),
    ),
    (
        Form::Items(Version::V2, 4_294_967_308),
        b"\x00\x81\xef\x02\xd2",
        Ok(b""),
    ),
    (
        Form::Items(Version::V1, 0),
        b"\x00\x81\xef\x02\xd2",
        Err("Checksum expected 3523407745 but got 3523407757"),
    ),
    (
        Form::Items(Version::V2, 0),
        b"\x00\x81\xef\x02\xd2",
        Err("Checksum expected 3523407745 but got 3523407757"),
    ),
    (
        Form::Items(Version::V1, 12),
        b"",
        Err("Content too short 0"),
    ),
    (
        Form::Items(Version::V1, 12),
        b"\x8d\xef\x02\xd2",
        Err("Content too short 4"),
    ),
    (
        Form::Items(Version::V1, 12),
        b"\x00",
        Err("Content too short 1"),
    ),
    (
        Form::Items(Version::V1, 12),
        b"\x00\x8d\xef\x02\xd3",
        Err("Checksum expected 3540184973 but got 3523407757"),
    ),
    (
        Form::Items(Version::V1, 12),
        b"\x01\x01\x02\x01\x07\x00\x00\x00",
        Err("Checksum expected 7 but got 3708518490"),
    ),
    (
        Form::Items(Version::V1, 12),
        b"\x00\x00\x00\x00\x00\x00\x18\x00\x00\x00\x00\x00\x00\x00\x00\x10",
        Err("Checksum expected 268435456 but got 2488288921"),
    ),
    (
        Form::Items(Version::V1, 12),
        b"\x00\x00\x00\x00\x00\x00\x10\x00\x00\x00\x00\x00\x00\x00\x00\x0f",
        Err("Checksum expected 251658240 but got 2013512948"),
    ),
    (
        Form::Items(Version::V1, 12),
        b"\x00\x00\x00\x00\x00\x00\x10\x00\x00\x00\x00\x00\x00\x00\x00\x11",
        Err("Checksum expected 285212672 but got 2013512948"),
    ),
    (
        Form::Items(Version::V1, 12),
        b"\x00\x00\x00\x00\x00\x00\x18\x02\x00\x00\x00\x00\x00\x00\x00\x10\x01",
        Err("Checksum expected 17825792 but got 378352928"),
    ),
    (
        Form::Items(Version::V1, 12),
        b"\x00\x00\x00\x00\x00\x00\x18\x00\x00\x00\x00\x00\x00\x00\x10",
        Err("Checksum expected 268435456 but got 991391151"),
    ),
    (
        Form::Items(Version::V1, 12),
        b"\x80\x80\x80\x80\x80\x20\xd1\x10\x15\x12",
        Err(""),
    ),
    (
        Form::Items(Version::V1, 12),
        b"\x80\x80\x80\x80\x80\x80\x80\x80\x80\x01\x01\x02\x01\x80\xa4\x5c\xb0",
        Err(""),
    ),
    (
        Form::Items(Version::V1, 12),
        b"\x01\x01\x01\x80\x80\x80\x80\x80\x20\x01\xa2\xe0\x36\x1e",
        Err(""),
    ),
    (
        Form::Items(Version::V1, 12),
        b"\x01\x01\x01\x80\x80\x80\x80\x80\x80\x80\x80\x80\x01\x05\x01\x01\x47\xf9\x2b\xf5",
        Err(""),
    ),
];

/// Returns rows of a form, bytes, and the entry bytes or the error's text that reading the bytes in this form gives.
fn refusal_rows() -> &'static [Row] {
    &ROWS
}

/// Tests whether a result is `Corruption` with this text, or `Codec` if the text is empty.
///
/// # Errors
///
/// That of `answer`, unless it is `Corruption` or `Codec`.
pub(crate) fn is_corruption_with_text<T: Drop>(answer: Result<T>, text: &str) -> Result<bool> {
    match answer {
        Ok(_read) => Ok(false),
        Err(Error::Corruption(found)) => Ok(!text.is_empty() && found.as_str() == text),
        Err(Error::Codec(_)) => Ok(text.is_empty()),
        Err(e) => Err(e),
    }
}

/// Reads the start of `buf` in a form, and returns the entry bytes; none for a header.
///
/// # Errors
///
/// Those of the decoder; `Failed` for an item batch that has items.
fn decode_in_form(alloc: Global, form: Form, buf: &mut &[u8]) -> Result<Vec<u8>> {
    match form {
        Form::Header => {
            LogBatch::decode_header(alloc, buf)?;
            Ok(Vec::new(alloc))
        }
        Form::Block(len) => {
            let place = FileBlockHandle { len, ..PLACE };
            LogBatch::decode_entries_block(alloc, *buf, place, CompressionType::None)
        }
        Form::Items(version, seq) => decode_batch_without_items(alloc, buf, version, seq),
    }
}

/// Reads an item batch that has no items, and returns no bytes.
///
/// # Errors
///
/// Those of [`LogItemBatch::decode`]; `Failed` if the batch has items.
fn decode_batch_without_items(
    alloc: Global,
    buf: &mut &[u8],
    version: Version,
    seq: u64,
) -> Result<Vec<u8>> {
    let file = LogFileContext::new(FileId::new(LogQueue::Append, seq), version);
    let batch = LogItemBatch::decode(alloc, buf, PLACE, CompressionType::None, &file)?;
    if !batch.into_items().is_empty() {
        return Err(Error::Failed);
    }
    Ok(Vec::new(alloc))
}

/// Tests whether the bytes of a row are read as it says, or refused as it says, and nothing is read.
///
/// # Errors
///
/// That of the decoder, unless it is the one of the row.
fn row_holds(alloc: Global, row: &Row) -> Result<bool> {
    let (form, bytes, owed) = *row;
    let mut buf = bytes;
    let read = decode_in_form(alloc, form, &mut buf);
    match owed {
        Ok(entry_bytes) => Ok(read?.as_slice() == entry_bytes),
        Err(text) => Ok(is_corruption_with_text(read, text)? && buf == bytes),
    }
}

/// Tests that the bytes of each row are read, or are refused with its text and left unread.
#[test]
fn bytes_are_read_or_refused_and_left_unread(rt: HostRuntime) {
    assert!(rt; again!(check_each_refusal_row(&rt, rt.alloc())).is_ok());
}

/// Asserts that each row is read or refused as [`row_holds`] tests.
///
/// # Errors
///
/// Those of [`row_holds`].
fn check_each_refusal_row(rt: &impl Abort, alloc: Global) -> Result<()> {
    for row in refusal_rows() {
        assert!(rt; row_holds(alloc, row)?, "at {:?}", row.1);
    }
    Ok(())
}
