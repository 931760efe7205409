//! Tests items and their contents, which are written and read; and which of them are group markers.

mod rows;

use crate::refusals::is_corruption_with_text;
use raft_records::{
    ATOMIC_GROUP_KEY, AtomicGroupStatus, Command, EntryIndex, EntryIndexes, Error, KeyValue,
    LogItem, LogItemContent, OpType, Result, codec,
};
use raft_trials::again;
use rows::{Content, ContentRow, Form, MarkerRow, PrefixRow, Read, ReadRow};
use std::alloc::Global;
use std::io::ErrorKind;
use std::process::Abort;

/// Returns an item that changes a key of region 7.
///
/// # Errors
///
/// `Memory` alone.
fn key_value(alloc: Global, op_type: OpType, key: &[u8], value: Option<&[u8]>) -> Result<LogItem> {
    let key = Vec::from_slice(alloc, key)?;
    let value = match value {
        Some(value) => Some(Vec::from_slice(alloc, value)?),
        None => None,
    };
    Ok(LogItem::new_kv(7, op_type, key, value))
}

/// Returns the entries of a row: of each its index, its offset and its length.
///
/// # Errors
///
/// `Memory` alone.
fn entries_of_row(alloc: Global, row: &[(u64, u32, u32)]) -> Result<Vec<EntryIndex>> {
    let mut entries = Vec::new(alloc);
    for &(index, entry_offset, entry_len) in row {
        entries.push(EntryIndex {
            index,
            entry_offset,
            entry_len,
            ..EntryIndex::default()
        })?;
    }
    Ok(entries)
}

/// Returns an item of region 7 with a content.
///
/// # Errors
///
/// `Memory` alone.
fn item_with_content(alloc: Global, content: Content) -> Result<LogItem> {
    Ok(match content {
        Content::Clean => LogItem::new_command(7, Command::Clean),
        Content::Compact(index) => LogItem::new_command(7, Command::Compact { index }),
        Content::Truncate(index) => LogItem::new_command(7, Command::Truncate { index }),
        Content::Put(key, value) => key_value(alloc, OpType::Put, key, value)?,
        Content::Delete(key, value) => key_value(alloc, OpType::Del, key, value)?,
        Content::Entries(entries) => LogItem::new_entry_indexes(7, entries_of_row(alloc, entries)?),
    })
}

/// Tests whether an item with the content of a row is written behind two bytes as region, type and the bytes of the
/// row, and read from these again, but for the value of a removal; or, where the row has no bytes, whether both the
/// item and the content alone are refused, and nothing is written.
///
/// # Errors
///
/// That of writing or reading the item, unless it is an `InvalidArgument` of writing; `Memory`.
fn content_row_holds(alloc: Global, row: &ContentRow) -> Result<bool> {
    let (content, bytes) = *row;
    let item = item_with_content(alloc, content)?;
    let mut buf = Vec::from_slice(alloc, b"ab")?;
    match item.encode(&mut buf) {
        Ok(()) => {
            let (front, written) = buf.as_slice().split_at(buf.len().min(2));
            let is_same = is_item_read(alloc, &item, written)?;
            let is_cut = matches!(content, Content::Delete(_, Some(_)));
            Ok(front == b"ab".as_slice() && written.get(2..) == Some(bytes) && is_same != is_cut)
        }
        Err(Error::InvalidArgument(_)) => {
            let stays = buf.as_slice() == b"ab".as_slice();
            Ok(bytes.is_empty() && stays && is_content_unwritable(alloc, &item.content)?)
        }
        Err(e) => Err(e),
    }
}

/// Writes a content without region and type.
///
/// # Errors
///
/// `InvalidArgument` if the content can't be written; `Memory`. `buf` is unchanged then.
fn encode_content(content: &LogItemContent, buf: &mut Vec<u8>) -> Result<()> {
    match content {
        LogItemContent::EntryIndexes(entries) => entries.encode(buf),
        LogItemContent::Command(command) => command.encode(buf),
        LogItemContent::Kv(kv) => kv.encode(buf),
    }
}

/// Tests whether a content without region and type is refused as `InvalidArgument`, and nothing is written behind two
/// bytes.
///
/// # Errors
///
/// That of writing the content, unless it is `InvalidArgument`; `Memory`.
fn is_content_unwritable(alloc: Global, content: &LogItemContent) -> Result<bool> {
    let mut buf = Vec::from_slice(alloc, b"ab")?;
    match encode_content(content, &mut buf) {
        Ok(()) => Ok(false),
        Err(Error::InvalidArgument(_)) => Ok(buf.as_slice() == b"ab".as_slice()),
        Err(e) => Err(e),
    }
}

/// Tests whether an item is read from these bytes, and nothing is left.
///
/// # Errors
///
/// Those of [`LogItem::decode`].
fn is_item_read(alloc: Global, item: &LogItem, bytes: &[u8]) -> Result<bool> {
    let mut rest = bytes;
    let mut size = 0;
    let read = LogItem::decode(alloc, &mut rest, &mut size)?;
    Ok(read == *item && rest.is_empty())
}

/// Reads an item, or a content as that of region 7, at the start of `buf`, and moves `buf` behind it. `size` is how
/// many entry bytes come before its entries, and then how many come before those of the next item.
///
/// # Errors
///
/// Those of the decoder. `buf` and `size` are unchanged then.
fn decode_in_form(alloc: Global, form: Form, buf: &mut &[u8], size: &mut u32) -> Result<LogItem> {
    let content = match form {
        Form::Item => return LogItem::decode(alloc, buf, size),
        Form::Command => LogItemContent::Command(Command::decode(alloc, buf)?),
        Form::KeyValue => LogItemContent::Kv(KeyValue::decode(alloc, buf)?),
        Form::Entries => LogItemContent::EntryIndexes(EntryIndexes::decode(alloc, buf, size)?),
    };
    Ok(LogItem {
        raft_group_id: 7,
        content,
    })
}

/// Tests whether an item, or its content alone if `form` says so, is written as these bytes.
///
/// # Errors
///
/// Those of the encoder; `Memory`.
fn is_item_written_as(alloc: Global, form: Form, item: &LogItem, bytes: &[u8]) -> Result<bool> {
    let mut buf = Vec::new(alloc);
    match form {
        Form::Item => item.encode(&mut buf)?,
        _ => encode_content(&item.content, &mut buf)?,
    }
    Ok(buf.as_slice() == bytes)
}

/// Tests whether the clones of an item, of its content and of the parts of that are equal to what they are made of.
///
/// # Errors
///
/// `Memory` alone.
fn are_clones_equal(item: &LogItem) -> Result<bool> {
    let is_content_cloned = match &item.content {
        LogItemContent::EntryIndexes(entries) => entries.clone()? == *entries,
        LogItemContent::Command(command) => command.clone()? == *command,
        LogItemContent::Kv(kv) => kv.clone()? == *kv,
    };
    Ok(is_content_cloned && item.content.clone()? == item.content && item.clone()? == *item)
}

/// Tests whether an error is the one that a row expects.
fn is_expected_error(read: Read, e: &Error) -> bool {
    match (read, e) {
        (Read::Unrecognized(text), Error::Corruption(found)) => found.as_str() == text,
        (Read::Corruption, Error::Corruption(_)) => true,
        (Read::Codec, Error::Codec(codec::Error::Io(e))) => e.kind() == ErrorKind::UnexpectedEof,
        (Read::Endless, Error::Codec(codec::Error::Io(e))) => e.kind() == ErrorKind::InvalidData,
        (Read::Io, Error::Io(e)) => e.kind() == ErrorKind::UnexpectedEof,
        _ => false,
    }
}

/// Tests whether what a row says is read at the start of its bytes, written as the same bytes, and cloned; or whether
/// it is refused as the row says, and nothing is read.
///
/// # Errors
///
/// `Memory`, and those of writing the item again. Any error of reading is compared with the row's.
fn read_row_holds(alloc: Global, row: &ReadRow) -> Result<bool> {
    let (form, bytes, read) = *row;
    let start = match form {
        Form::Item => 0u32,
        _ => 1,
    };
    let mut rest = bytes;
    let mut size = start;
    match decode_in_form(alloc, form, &mut rest, &mut size) {
        Ok(item) => {
            let front = bytes.strip_suffix(rest).unwrap_or(bytes);
            let read_so =
                matches!(read, Read::Item(end, left) if size == end && rest.len() == left);
            Ok(
                read_so
                    && is_item_written_as(alloc, form, &item, front)?
                    && are_clones_equal(&item)?,
            )
        }
        Err(Error::Memory) if rest == bytes && size == start => Err(Error::Memory),
        Err(e) => Ok(is_expected_error(read, &e) && rest == bytes && size == start),
    }
}

/// Tests whether the change of the group markers' key in a row is parsed as the group marker of the row, as none, or is
/// refused for its reason.
///
/// # Errors
///
/// That of parsing the marker, unless it is the one of the row; `Memory`.
fn marker_row_holds(alloc: Global, row: &MarkerRow) -> Result<bool> {
    let (op_type, value, marker) = *row;
    let item = key_value(alloc, op_type, &ATOMIC_GROUP_KEY, value)?;
    let read = AtomicGroupStatus::parse(alloc, &item);
    match marker {
        Ok(marker) => Ok(read? == marker),
        Err(text) => is_corruption_with_text(read, text),
    }
}

/// Tests whether a put is read in which the length of the value takes two bytes, where one would be enough.
///
/// # Errors
///
/// Those of the decoder; `Memory`.
fn is_longer_length_read(alloc: Global) -> Result<bool> {
    let mut rest = b"\x01\x01k\x82\x00vv".as_slice();
    let mut size = 0;
    let item = decode_in_form(alloc, Form::KeyValue, &mut rest, &mut size)?;
    Ok(item == key_value(alloc, OpType::Put, b"k", Some(b"vv"))? && rest.is_empty())
}

/// Tests that items are written as the bytes of the rows and read back from them, and that other bytes are refused.
#[test]
fn items_have_the_bytes_of_the_rows(rt: HostRuntime) {
    assert!(rt; again!(check_each_item_row(&rt, rt.alloc())).is_ok());
}

/// Asserts that each row of contents, of bytes that are read, and of group markers holds, and that a longer length is
/// read.
///
/// # Errors
///
/// That of a call, unless its row expects it; `Memory`.
fn check_each_item_row(rt: &impl Abort, alloc: Global) -> Result<()> {
    for (number, row) in rows::content_rows().iter().enumerate() {
        assert!(rt; content_row_holds(alloc, row)?, "content {number}");
    }
    for row in rows::read_rows() {
        assert!(rt; read_row_holds(alloc, row)?, "at {:?}", row.1);
    }
    for row in rows::marker_rows() {
        assert!(rt; marker_row_holds(alloc, row)?, "{:?}", row.1);
    }
    assert!(rt; is_longer_length_read(alloc)?);
    Ok(())
}

/// Tests whether each shorter prefix of `whole` is refused, and nothing is read.
///
/// # Errors
///
/// `Memory` alone: any other error is looked at.
fn are_prefixes_refused(alloc: Global, form: Form, whole: &[u8]) -> Result<bool> {
    for len in 0..whole.len() {
        if !is_refused_and_left(alloc, form, whole.get(..len).unwrap_or(whole))? {
            return Ok(false);
        }
    }
    Ok(true)
}

/// Tests whether bytes are refused as corrupt or as ending too early, and neither they nor the number of entry bytes
/// has changed, also where there is no memory.
///
/// # Errors
///
/// `Memory` alone: any other error is looked at.
fn is_refused_and_left(alloc: Global, form: Form, bytes: &[u8]) -> Result<bool> {
    let mut rest = bytes;
    let mut size = 1;
    match decode_in_form(alloc, form, &mut rest, &mut size) {
        Ok(_read) => Ok(false),
        Err(_) if rest != bytes || size != 1 => Ok(false),
        Err(Error::Memory) => Err(Error::Memory),
        Err(e) => {
            let is_short = is_expected_error(Read::Codec, &e) || is_expected_error(Read::Io, &e);
            Ok(is_short || is_expected_error(Read::Corruption, &e))
        }
    }
}

/// Returns how a prefix is refused that lacks what a letter of [`PrefixRow`] stands for.
fn refusal_for_lacking(lacking: u8) -> Read {
    match lacking {
        b'i' => Read::Io,
        b'k' => Read::Corruption,
        _ => Read::Codec,
    }
}

/// Tests whether each shorter prefix of the bytes of a row is refused for what it lacks, and nothing is read.
///
/// # Errors
///
/// Those of [`read_row_holds`].
fn prefix_row_holds(alloc: Global, row: &PrefixRow) -> Result<bool> {
    let (form, whole, lacking) = *row;
    for (len, letter) in lacking.iter().enumerate() {
        let front = whole.get(..len).unwrap_or(whole);
        if !read_row_holds(alloc, &(form, front, refusal_for_lacking(*letter)))? {
            return Ok(false);
        }
    }
    Ok(lacking.len() == whole.len())
}

/// Tests whether each shorter prefix of the bytes of an item, if it can be written, is refused.
///
/// # Errors
///
/// That of writing the item, unless it is `InvalidArgument`; `Memory`.
fn are_item_prefixes_refused(alloc: Global, item: &LogItem) -> Result<bool> {
    let mut buf = Vec::new(alloc);
    match item.encode(&mut buf) {
        Ok(()) => are_prefixes_refused(alloc, Form::Item, buf.as_slice()),
        Err(Error::InvalidArgument(_)) => Ok(buf.is_empty()),
        Err(e) => Err(e),
    }
}

/// Tests whether each shorter prefix of the bytes that are read in a row, if they are, is refused.
///
/// # Errors
///
/// `Memory` alone.
fn are_row_prefixes_refused(alloc: Global, row: &ReadRow) -> Result<bool> {
    let (form, bytes, read) = *row;
    match read {
        Read::Item(_, left) => {
            let len = bytes.len().saturating_sub(left);
            are_prefixes_refused(alloc, form, bytes.get(..len).unwrap_or(bytes))
        }
        _ => Ok(true),
    }
}

/// Tests whether each shorter prefix of the bytes of the change in a row is refused.
///
/// # Errors
///
/// That of writing the change, unless it is `InvalidArgument`; `Memory`.
fn are_marker_prefixes_refused(alloc: Global, row: &MarkerRow) -> Result<bool> {
    let (op_type, value, _) = *row;
    are_item_prefixes_refused(alloc, &key_value(alloc, op_type, &ATOMIC_GROUP_KEY, value)?)
}

/// Tests that each shorter prefix of the bytes of an item is refused, and that nothing is read then.
#[test]
fn shorter_prefixes_are_refused(rt: HostRuntime) {
    assert!(rt; again!(check_prefixes_of_all_rows(&rt, rt.alloc())).is_ok());
}

/// Asserts that shorter prefixes of the bytes of all rows are refused.
///
/// # Errors
///
/// That of writing an item, unless it is `InvalidArgument`; `Memory`.
fn check_prefixes_of_all_rows(rt: &impl Abort, alloc: Global) -> Result<()> {
    for (number, row) in rows::content_rows().iter().enumerate() {
        let item = item_with_content(alloc, row.0)?;
        assert!(rt;
            are_item_prefixes_refused(alloc, &item)?,
            "content {number}"
        );
    }
    for row in rows::read_rows() {
        assert!(rt; are_row_prefixes_refused(alloc, row)?, "at {:?}", row.1);
    }
    for row in rows::marker_rows() {
        assert!(rt; are_marker_prefixes_refused(alloc, row)?, "{:?}", row.1);
    }
    for row in rows::prefix_rows() {
        assert!(rt; prefix_row_holds(alloc, row)?, "of {:?}", row.1);
    }
    assert!(rt; are_prefixes_refused(alloc, Form::KeyValue, b"\x01\x01k\x82\x00vv")?);
    Ok(())
}

/// Tests whether a byte is read as it should be: 1 and 2 as the op types that are written as these bytes, any other
/// byte not at all, with an error that names the byte.
///
/// # Errors
///
/// That of reading the byte, unless it is `Corruption`; `Memory`.
fn is_op_type_byte_read_right(alloc: Global, byte: u8) -> Result<bool> {
    match OpType::from_u8(alloc, byte) {
        Ok(OpType::Put) => Ok(byte == 1 && OpType::Put.to_u8() == 1),
        Ok(OpType::Del) => Ok(byte == 2 && OpType::Del.to_u8() == 2),
        Err(Error::Corruption(text)) => {
            let reason = format!(in alloc; "Unrecognized op type: {byte}")?;
            Ok(byte != 1 && byte != 2 && text == reason)
        }
        Err(e) => Err(e),
    }
}

/// Tests that of all bytes only 1 and 2 are read as op types, and that an error names any other.
#[test]
fn one_and_two_are_op_types(rt: HostRuntime) {
    assert!(rt; again!(check_each_op_type_byte(&rt, rt.alloc())).is_ok());
}

/// Asserts for each byte that it is read right as an op type.
///
/// # Errors
///
/// Those of [`is_op_type_byte_read_right`].
fn check_each_op_type_byte(rt: &impl Abort, alloc: Global) -> Result<()> {
    for byte in 0..=u8::MAX {
        assert!(rt; is_op_type_byte_read_right(alloc, byte)?, "{byte}");
    }
    Ok(())
}
