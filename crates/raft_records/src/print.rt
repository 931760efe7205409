//! Item batches as lines of text.

ghost use Rattle.std.specs.Prelude.{◌≡◌, ◌≢◌, ◌≤◌, ◌++◌, ◌⊎◌, length, take, IfOk, IfErr, IfSome, OnOk, OnErr, map, string_bytes};
ghost use Rattle.raft_records.specs.Common.{flat_map, signature_of, item_of, content_of, pair_of, bytes_text, entries_text, pair_text, content_text, line_of, last_line, IsTextOf, Prints, IsNoItemBatch, IsPrintFault, IsWriteFailure};
ghost use Rattle.raft_records.specs.Common.{IsIoError, AppendsFront};
ghost use Rattle.std.specs.Io.KnownBytes.{Appends, IsAtEnd, Keeps};

use crate::entry_indexes::tail_offset;
use crate::{Command, KeyValue, LogItem, LogItemBatch, LogItemContent, OpType};
use raft_base::{
    AllocResult, CompressionType, EntryIndex, Error, FileBlockHandle, LogFileContext, Result,
};
use std::alloc::Global;
use std::io::{self, ErrorKind, Read, Write};

/// Reads all bytes of `reader`, which must be an item batch in the file of `context`, and writes its text to
/// `writer`, as [`batch_text`] has it.
///
/// # Errors
///
/// Those of [`LogItemBatch::decode`], and `Memory`; nothing is written then. `Io` if the reader or the writer
/// fails; if it is the writer, a prefix of the text may have been written.
pub fn print_batch<R: Read, W: Write>(
    alloc: Global,
    reader: &mut R,
    writer: &mut W,
    context: &LogFileContext,
) -> Result<()>
    ensures ok { OnOk result (IfSome (R.remaining reader.old) (λ input.
        Prints input (signature_of context.now) (W.contents writer.old) (W.contents writer.new))) }
    ensures all_read { OnOk result (IsAtEnd (R.remaining reader.new)) }
    ensures silent { IfErr result (λ e. Keeps (W.contents writer.old) (W.contents writer.new)
        ⊎ IsWriteFailure (R.remaining reader.old) (R.remaining reader.new)
        (signature_of context.now)
        (W.contents writer.old) (W.contents writer.new) e) }
    ensures refused { IfErr result (λ e. (IsIoError e → ⊥) → e ≢ Error.Memory →
        IfSome (R.remaining reader.old) (λ input. IsNoItemBatch input (signature_of context.now))) }
    ensures fault { IfErr result (λ e. (IsIoError e → ⊥) →
        IfSome (R.remaining reader.old)
        (λ input. IsPrintFault input (signature_of context.now) e)) }
{
    let mut input = Vec::new(alloc);
    reader.read_to_end(&mut input)?;
    let text = batch_text(alloc, input.as_slice(), context)?;
    write_whole(writer, text.as_bytes())
}

/// Writes all of `bytes` to `writer`, in as many writes as it takes. An interrupted write is made again.
///
/// # Errors
///
/// `Io` if the writer fails or takes no more bytes. A prefix of `bytes`, but not all of them, has been
/// written then.
#[doc(hidden)]
#[tactic(auto, using(crate::proofs::PrintLemmas::written_on))]
pub fn write_whole<W: Write>(writer: &mut W, bytes: &[u8]) -> Result<()>
    ensures ok { OnOk result (Appends (W.contents writer.old) (W.contents writer.new) bytes.now) }
    ensures err { OnErr result (AppendsFront (W.contents writer.old) (W.contents writer.new)
        bytes.now) }
    ensures fault { IfErr result IsIoError }
{
    let mut rest = bytes;
    // Counted: an interrupted write leaves `rest` as it was, so a `loop` might never end.
    for _ in 0..u64::MAX {
        if rest.is_empty() {
            break;
        }
        let count = write_prefix(writer, rest)?;
        rest = &rest[count..];
    }
    if rest.is_empty() {
        Ok(())
    } else {
        Err(write_zero_error())
    }
}

/// Writes a prefix of `bytes` with one write, as many bytes as the writer takes, and returns their number: 0
/// if the write was interrupted.
///
/// # Errors
///
/// `Io` if the writer fails or takes no bytes. Nothing was written then.
fn write_prefix<W: Write>(writer: &mut W, bytes: &[u8]) -> Result<usize>
    ensures bound { IfOk result (λ count. count ≤ length bytes.now) }
    ensures ok { IfOk result
        (λ count. Appends (W.contents writer.old) (W.contents writer.new) (take count bytes.now)) }
    ensures err { OnErr result (Keeps (W.contents writer.old) (W.contents writer.new)) }
    ensures fault { IfErr result IsIoError }
{
    match writer.write(bytes) {
        Ok(0) => Err(write_zero_error()),
        Ok(count) => Ok(count),
        Err(error) if error.kind() == ErrorKind::Interrupted => Ok(0),
        Err(error) => Err(Error::Io(error)),
    }
}

/// Returns the error for a writer that takes no more bytes: `Io` of the kind `WriteZero`.
fn write_zero_error() -> Error
    ensures { IsIoError result }
{
    Error::Io(io::Error::new(ErrorKind::WriteZero, "the writer takes no more"))
}

/// Returns the text of `bytes`, all of which must be an item batch in the file of `context`: a line for each
/// item, and a last line with the number of items and the number of bytes between the last item and the
/// checksum. Keys and values are in hexadecimal digits, or `-` if empty. Such lines are
/// `7 entries 2 first 10 tail 3`, `7 put 707574 7075745f76`, `7 del 707574`, `7 compact 7` and
/// `items 4 rest 0`.
///
/// # Errors
///
/// Those of [`LogItemBatch::decode`], and `Memory`.
pub fn batch_text(alloc: Global, bytes: &[u8], context: &LogFileContext) -> Result<String>
    ensures ok { IfOk result (λ text.
        IsTextOf bytes.now (signature_of context.now) (string_bytes text)) }
    ensures refused { IfErr result (λ e. e ≢ Error.Memory →
        IsNoItemBatch bytes.now (signature_of context.now)) }
    ensures fault { IfErr result (IsPrintFault bytes.now (signature_of context.now)) }
{
    // No line shows a place.
    let place = FileBlockHandle {
        id: context.id,
        offset: 0,
        len: 0,
    };
    let mut rest = bytes;
    let batch = LogItemBatch::decode(alloc, &mut rest, place, CompressionType::None, context)?;
    let items = batch.into_items();
    let mut text = String::new(alloc);
    append_lines(alloc, items.as_slice(), &mut text)?;
    append_counts(items.len(), rest.len(), &mut text)?;
    Ok(text)
}

/// Appends the line of each of `items` to `text`, in order ([`append_line`]).
///
/// # Errors
///
/// `AllocError` if there is no memory for them. A part of the lines may have been appended then.
fn append_lines(alloc: Global, items: &[LogItem], text: &mut String) -> AllocResult<()>
    ensures { OnOk result (string_bytes text.new
        ≡ string_bytes text.old ++ flat_map line_of (map item_of items.now)) }
{
    for item in items {
        append_line(alloc, item, text)?;
    }
    Ok(())
}

/// Appends the line of `item` to `text`: its region and its content, such as `7 compact 10`.
///
/// # Errors
///
/// `AllocError` if there is no memory for it. A part of the line may have been appended then.
fn append_line(alloc: Global, item: &LogItem, text: &mut String) -> AllocResult<()>
    ensures { OnOk result
        (string_bytes text.new ≡ string_bytes text.old ++ line_of (item_of item.now)) }
{
    write!(text, "{} ", item.raft_group_id)?;
    append_content(alloc, &item.content, text)?;
    text.push('\n')
}

/// Appends the content of an item to `text`: `entries ..`, `clean`, `compact INDEX`, `truncate INDEX`,
/// `put KEY VALUE` or `del KEY`.
///
/// # Errors
///
/// `AllocError` if there is no memory for it. A part of it may have been appended then.
fn append_content(alloc: Global, content: &LogItemContent, text: &mut String) -> AllocResult<()>
    ensures { OnOk result
        (string_bytes text.new ≡ string_bytes text.old ++ content_text (content_of content.now)) }
{
    match content {
        LogItemContent::EntryIndexes(entries) => append_entries(entries.0.as_slice(), text),
        LogItemContent::Command(Command::Clean) => text.push_str("clean"),
        LogItemContent::Command(Command::Compact { index }) => write!(text, "compact {index}"),
        LogItemContent::Command(Command::Truncate { index }) => write!(text, "truncate {index}"),
        LogItemContent::Kv(kv) => append_key_value(alloc, kv, text),
    }
}

/// Appends the number of entries, the first index, and the tail offset of the last entry to `text`, such as
/// `entries 2 first 10 tail 3`; or `entries 0` if there are none.
///
/// # Errors
///
/// `AllocError` if there is no memory for it. A part of it may have been appended then.
#[tactic(auto, using(crate::proofs::PrintLemmas::text_by_ends))]
fn append_entries(entries: &[EntryIndex], text: &mut String) -> AllocResult<()>
    ensures { OnOk result (string_bytes text.new
        ≡ string_bytes text.old ++ entries_text entries.now) }
{
    let (Some(first), Some(last)) = (entries.first(), entries.last()) else {
        return text.push_str("entries 0");
    };
    let count = entries.len();
    let index = first.index;
    let tail = tail_offset(last);
    write!(text, "entries {count} first {index} tail {tail}")
}

/// Appends `kv`, a change of a key, to `text`: `put KEY VALUE` or `del KEY`, with key and value in
/// hexadecimal digits, or `-` if empty.
///
/// # Errors
///
/// `AllocError` if there is no memory for it. A part of it may have been appended then.
fn append_key_value(alloc: Global, kv: &KeyValue, text: &mut String) -> AllocResult<()>
    ensures { OnOk result (string_bytes text.new
        ≡ string_bytes text.old
        ++ pair_text kv.now.op_type kv.now.key.items (pair_of kv.now).value) }
{
    match kv.op_type {
        OpType::Put => {
            text.push_str("put ")?;
            append_hex(alloc, kv.key.as_slice(), text)?;
            text.push(' ')?;
            match &kv.value {
                Some(value) => append_hex(alloc, value.as_slice(), text),
                None => append_hex(alloc, &[], text),
            }
        }
        OpType::Del => {
            text.push_str("del ")?;
            append_hex(alloc, kv.key.as_slice(), text)
        }
    }
}

/// Appends `bytes` in hexadecimal digits to `text`, or `-` if there are none.
///
/// # Errors
///
/// `AllocError` if there is no memory for them.
fn append_hex(alloc: Global, bytes: &[u8], text: &mut String) -> AllocResult<()>
    ensures { OnOk result (string_bytes text.new ≡ string_bytes text.old ++ bytes_text bytes.now) }
{
    if bytes.is_empty() {
        return text.push('-');
    }
    let digits = hex::encode(alloc, bytes)?;
    text.push_str(digits.as_str())
}

/// Appends the last line to `text`: `items ITEMS rest REST`, with the number of items and the number of bytes
/// between the last item and the checksum.
///
/// # Errors
///
/// `AllocError` if there is no memory for it. A part of the line may have been appended then.
fn append_counts(items: usize, rest: usize, text: &mut String) -> AllocResult<()>
    ensures { OnOk result (string_bytes text.new
        ≡ string_bytes text.old ++ last_line items rest) }
{
    writeln!(text, "items {items} rest {rest}")
}
