//! Items, and parts of items, that are read and written again.

use crate::calls::Call;
use crate::found::{Found, is_lack_of_memory};
use raft_records::{Command, EntryIndexes, KeyValue, LogItem, Result};
use std::alloc::Global;

/// As what bytes are read.
#[derive(Clone, Copy)]
pub(crate) enum Form {
    /// A command.
    Command,
    /// A change of a key.
    KeyValue,
    /// The indexes of entries.
    Entries,
    /// A whole item.
    Item,
}

/// What was read.
#[derive(Drop)]
enum Content {
    Command(Command),
    KeyValue(KeyValue),
    Entries(EntryIndexes),
    Item(LogItem),
}

/// The calls of the row `items`.
pub(crate) static ITEMS: [Call; 18] = [
    Call::Read(Form::Command, b"\x01"),
    Call::Read(Form::Command, b"\x02\x07"),
    Call::Read(Form::Command, b"\x03\xac\x02"),
    Call::Read(Form::Command, b"\x07"),
    Call::Read(Form::KeyValue, b"\x01\x03put\x05put_v"),
    Call::Read(Form::KeyValue, b"\x02\x00"),
    Call::Read(Form::KeyValue, b"\x00"),
    Call::Read(Form::KeyValue, b"\x01\x7fput"),
    Call::Read(Form::Entries, b"\x03\x0a\x01\x02\x03"),
    Call::Read(Form::Entries, b"\x02\x05\x03\x02"),
    Call::Read(
        Form::Entries,
        b"\x01\xfe\xff\xff\xff\xff\xff\xff\xff\xff\x01\x00",
    ),
    Call::Read(
        Form::Entries,
        b"\x02\xfe\xff\xff\xff\xff\xff\xff\xff\xff\x01\x00\x00",
    ),
    Call::Read(Form::Item, b"\x01\x02\x01"),
    Call::Read(Form::Item, b"\x01\x02\x02\x07"),
    Call::Read(Form::Item, b"\xac\x02\x03\x01\x03put\x05put_v"),
    Call::Read(Form::Item, b"\x07\x01\x02\x0a\x02\x03"),
    Call::Read(Form::Item, b"\x01\x04"),
    Call::Read(Form::Item, b"\x01\x02\x07"),
];

/// Reads a value of this `form` from the start of `buf`, which is moved after it. `size` is the number of
/// entry bytes of the items before, and is raised by those of the entries that are read.
///
/// # Errors
///
/// Those of the form's `decode`. `buf` and `size` are unchanged then.
fn decode_form(alloc: Global, form: Form, buf: &mut &[u8], size: &mut u32) -> Result<Content> {
    match form {
        Form::Command => Ok(Content::Command(Command::decode(alloc, buf)?)),
        Form::KeyValue => Ok(Content::KeyValue(KeyValue::decode(alloc, buf)?)),
        Form::Entries => Ok(Content::Entries(EntryIndexes::decode(alloc, buf, size)?)),
        Form::Item => Ok(Content::Item(LogItem::decode(alloc, buf, size)?)),
    }
}

/// Appends the bytes of `content` to `out`.
///
/// # Errors
///
/// Those of its `encode`. `out` is unchanged then.
fn encode_content(content: &Content, out: &mut Vec<u8>) -> Result<()> {
    match content {
        Content::Command(command) => command.encode(out),
        Content::KeyValue(pair) => pair.encode(out),
        Content::Entries(entries) => entries.encode(out),
        Content::Item(item) => item.encode(out),
    }
}

/// Reads `bytes` as a value of this `form`, and writes the value after the byte 0x21. Adds a line with these
/// bytes in hexadecimal digits. If a call returns `Memory`, notes in `found` whether it has changed nothing: a
/// reading leaves the slice and the number of entry bytes as they were, a writing the byte 0x21 alone.
///
/// # Errors
///
/// Those of [`decode_form`] and [`encode_content`].
pub(crate) fn read_item(found: &mut Found, form: Form, bytes: &[u8]) -> Result<()> {
    let mut buf = bytes;
    let mut size = 0u32;
    let read = decode_form(found.alloc, form, &mut buf, &mut size);
    found.note_what_refusal_left(!is_lack_of_memory(&read) || buf == bytes && size == 0);
    let content = read?;
    let mut out = Vec::from_slice(found.alloc, b"!")?;
    let answer = encode_content(&content, &mut out);
    found.note_what_refusal_left(
        !is_lack_of_memory(&answer) || out.as_slice() == [b'!'].as_slice(),
    );
    answer?;
    found.append_hex_line(out.as_slice())
}
