//! The lines of items in a dump as text. `known` is the entry block that was read already, so that it isn't read for each entry. Each call
//! that appends fails for want of memory alone, and some of its text may then be appended.

ghost use Rattle.std.specs.Prelude.{◌≡◌, ◌++◌, codes, map, option_map, string_bytes, IfErr, IfOk, IfSome, OnOk};
ghost use Rattle.raft_records.specs.Item.{item_of, pair, pair_of};
ghost use Rattle.raft_records.specs.Lines.{command_text};
ghost use Rattle.raft_listing.specs.ReadBlocks.{AreBytesShown, IsReadBlock};
ghost use Rattle.raft_listing.specs.Dumped.{Adds, AreContents, AreEntryLines, AreItemTexts, IsContentText, IsEntriesText, IsEntryLine, IsEntryShown, IsItemText, IsPairText, IsSelectedLine, IsSelectedText, IsValueText, MarksGroup, entries_line, lost_text, op_words, place_words, status_words};

use crate::blocks::{BytesOfEntry, ReadBlock, bytes_of_entry, needed_block};
use crate::damage::Loss;
use crate::selection::Selection;
use crate::shown::append_quoted_or_hex;
use raft_base::{AllocResult, EntryIndex, Error, FileBlockHandle, Result};
use raft_records::{
    AtomicGroupStatus, Command, FilePart, KeyValue, LogItem, LogItemContent, OpType,
};
use std::alloc::Global;

/// Appends the lines of the selected items of a batch. The entry block of the batch is read once, if values are selected.
///
/// # Errors
///
/// `Memory`. Some lines may then be appended.
pub(crate) fn append_items(
    part: &FilePart,
    items: &[LogItem],
    selection: &Selection,
    text: &mut String,
) -> Result<()>
    ensures ok { OnOk result (Adds (AreItemTexts selection.now part.now (map item_of items.now))
        (string_bytes text.old) (string_bytes text.new)) }
    ensures memory { IfErr result (λ e. e ≡ Error.Memory) }
{
    let block = needed_block(part, items, selection)?;
    for item in items {
        append_item_if_selected(part, item, selection, block, text)?;
    }
    Ok(())
}

/// Appends the lines of an item if it is selected; else nothing.
fn append_item_if_selected(
    part: &FilePart,
    item: &LogItem,
    selection: &Selection,
    known: Option<ReadBlock<'_>>,
    text: &mut String,
) -> Result<()>
    requires { IfSome known (IsReadBlock part.now) }
    ensures ok { OnOk result (Adds (IsSelectedText selection.now part.now (item_of item.now))
        (string_bytes text.old) (string_bytes text.new)) }
    ensures memory { IfErr result (λ e. e ≡ Error.Memory) }
{
    if selection.has_item(item) {
        return append_item(part, item, selection, known, text);
    }
    Ok(())
}

/// Appends the lines of an item: its region and what it says, and below it, if values are selected, a line for each selected entry.
fn append_item(
    part: &FilePart,
    item: &LogItem,
    selection: &Selection,
    known: Option<ReadBlock<'_>>,
    text: &mut String,
) -> Result<()>
    requires { IfSome known (IsReadBlock part.now) }
    ensures ok { OnOk result (Adds (IsItemText selection.now part.now (item_of item.now))
        (string_bytes text.old) (string_bytes text.new)) }
    ensures memory { IfErr result (λ e. e ≡ Error.Memory) }
{
    write!(text, "  region {} ", item.raft_group_id)?;
    append_content(part, item, selection, known, text)
}

/// Appends what an item says, up to the end of its last line: its entries, a command, or the change of a key.
fn append_content(
    part: &FilePart,
    item: &LogItem,
    selection: &Selection,
    known: Option<ReadBlock<'_>>,
    text: &mut String,
) -> Result<()>
    requires { IfSome known (IsReadBlock part.now) }
    ensures ok { OnOk result (Adds (IsContentText selection.now part.now (item_of item.now) (item_of item.now).content)
        (string_bytes text.old) (string_bytes text.new)) }
    ensures memory { IfErr result (λ e. e ≡ Error.Memory) }
{
    match &item.content {
        LogItemContent::EntryIndexes(entries) => {
            append_entries(part, entries.0.as_slice(), selection, known, text)
        }
        LogItemContent::Command(command) => Ok(append_command(command, text)?),
        LogItemContent::Kv(change) => append_key_change(part, item, change, selection, text),
    }
}

/// Appends the name of a command, with its index if it has one, and ends the line.
fn append_command(command: &Command, text: &mut String) -> AllocResult<()>
    ensures { OnOk result (string_bytes text.new ≡ string_bytes text.old ++ (command_text command.now ++ codes "\n")) }
{
    match command {
        Command::Clean => text.push_str("clean\n"),
        Command::Compact { index } => writeln!(text, "compact {index}"),
        Command::Truncate { index } => writeln!(text, "truncate {index}"),
    }
}

/// Appends what is done to a key, and ends the line. If the key value marks a batch of an atomic group, the line says whether the group
/// begins, goes on or ends there. `change` is the content of `item`.
fn append_key_change(
    part: &FilePart,
    item: &LogItem,
    change: &KeyValue,
    selection: &Selection,
    text: &mut String,
) -> Result<()>
    requires { (item_of item.now).content ≡ pair (pair_of change.now) }
    ensures ok { OnOk result (Adds (IsPairText selection.now (item_of item.now) (pair_of change.now))
        (string_bytes text.old) (string_bytes text.new)) }
    ensures memory { IfErr result (λ e. e ≡ Error.Memory) }
{
    let alloc = part.allocator();
    text.push_str(op_words(change.op_type))?;
    append_quoted_or_hex(alloc, change.key.as_slice(), text)?;
    append_value(part, &change.value, selection, text)?;
    let status = group_status_of(part, item)?;
    text.push_str(status_words(status))?;
    text.push_str("\n")?;
    Ok(())
}

/// Returns the word for what is done to a key, and a space.
fn op_words(op_type: OpType) -> &'static str
    ensures { result.now ≡ op_words op_type }
{
    match op_type {
        OpType::Put => "put ",
        OpType::Del => "delete ",
    }
}

/// Appends the number of bytes of a value, or the value itself if values are selected. Appends nothing for `None`.
fn append_value(
    part: &FilePart,
    value: &Option<Vec<u8>>,
    selection: &Selection,
    text: &mut String,
) -> AllocResult<()>
    ensures { OnOk result (Adds (IsValueText selection.now (option_map (λ v. v.items) value.now))
        (string_bytes text.old) (string_bytes text.new)) }
{
    let Some(value) = value else {
        return Ok(());
    };
    if !selection.values {
        return write!(text, " {} bytes", value.len());
    }
    text.push_str(" = ")?;
    append_quoted_or_hex(part.allocator(), value.as_slice(), text)
}

/// Returns the place of the batch in an atomic group that `item` marks. `None` if the item is no group marker, or its byte stands for no
/// place. `part` lends its allocator alone.
///
/// # Errors
///
/// `Memory` alone.
pub fn group_status_of(part: &FilePart, item: &LogItem) -> Result<Option<AtomicGroupStatus>>
    ensures ok { IfOk result (MarksGroup (item_of item.now)) }
    ensures memory { IfErr result (λ e. e ≡ Error.Memory) }
{
    match AtomicGroupStatus::parse(part.allocator(), item) {
        Ok(Some((_, status))) => Ok(Some(status)),
        Ok(None) => Ok(None),
        Err(Error::Memory) => Err(Error::Memory),
        Err(_) => Ok(None),
    }
}

/// Returns the words for the place of a batch in an atomic group, after a comma; an empty text for `None`.
fn status_words(status: Option<AtomicGroupStatus>) -> &'static str
    ensures { result.now ≡ status_words status }
{
    match status {
        None => "",
        Some(AtomicGroupStatus::Begin) => ", an atomic group begins",
        Some(AtomicGroupStatus::Middle) => ", an atomic group goes on",
        Some(AtomicGroupStatus::End) => ", an atomic group ends",
    }
}

/// Appends the range of indexes of an item's entries, with the place of their block, and ends the line. If values are selected, a line for
/// each selected entry follows.
fn append_entries(
    part: &FilePart,
    entries: &[EntryIndex],
    selection: &Selection,
    known: Option<ReadBlock<'_>>,
    text: &mut String,
) -> Result<()>
    requires { IfSome known (IsReadBlock part.now) }
    ensures ok { OnOk result (Adds (IsEntriesText selection.now part.now entries.now)
        (string_bytes text.old) (string_bytes text.new)) }
    ensures memory { IfErr result (λ e. e ≡ Error.Memory) }
{
    let Some(first) = entries.first() else {
        text.push_str("entries -\n")?;
        return Ok(());
    };
    append_entries_line(first, entries.len(), text)?;
    append_entry_lines_if_asked(part, entries, selection, known, text)
}

/// Appends the rest of an item's line: the indexes of `count` consecutive entries from `first` on, and the place of the block that `first`
/// names. Ends the line.
fn append_entries_line(first: &EntryIndex, count: usize, text: &mut String) -> AllocResult<()>
    ensures { OnOk result (string_bytes text.new ≡ string_bytes text.old ++ entries_line first.now count) }
{
    let end = first.index.saturating_add(count as u64);
    write!(text, "entries {}..{end}", first.index)?;
    append_block_place(&first.entries, text)?;
    text.push('\n')
}

/// Appends a line for each selected entry if values are selected; else nothing.
fn append_entry_lines_if_asked(
    part: &FilePart,
    entries: &[EntryIndex],
    selection: &Selection,
    known: Option<ReadBlock<'_>>,
    text: &mut String,
) -> Result<()>
    requires { IfSome known (IsReadBlock part.now) }
    ensures ok { OnOk result (Adds (AreContents selection.now part.now entries.now)
        (string_bytes text.old) (string_bytes text.new)) }
    ensures memory { IfErr result (λ e. e ≡ Error.Memory) }
{
    if selection.values {
        return append_entry_lines(part, entries, selection, known, text);
    }
    Ok(())
}

/// Appends the offset and the length in bytes of an entry block; nothing for `None`.
fn append_block_place(place: &Option<FileBlockHandle>, text: &mut String) -> AllocResult<()>
    ensures { OnOk result (string_bytes text.new ≡ string_bytes text.old ++ place_words place.now) }
{
    match place {
        Some(place) => write!(text, " block at {} length {}", place.offset, place.len),
        None => Ok(()),
    }
}

/// Appends a line for each selected entry, whether or not values are selected.
fn append_entry_lines(
    part: &FilePart,
    entries: &[EntryIndex],
    selection: &Selection,
    known: Option<ReadBlock<'_>>,
    text: &mut String,
) -> Result<()>
    requires { IfSome known (IsReadBlock part.now) }
    ensures ok { OnOk result (Adds (AreEntryLines selection.now part.now entries.now)
        (string_bytes text.old) (string_bytes text.new)) }
    ensures memory { IfErr result (λ e. e ≡ Error.Memory) }
{
    for entry in entries {
        append_entry_if_selected(part, entry, selection, known, text)?;
    }
    Ok(())
}

/// Appends the line of an entry if it is selected; else nothing.
fn append_entry_if_selected(
    part: &FilePart,
    entry: &EntryIndex,
    selection: &Selection,
    known: Option<ReadBlock<'_>>,
    text: &mut String,
) -> Result<()>
    requires { IfSome known (IsReadBlock part.now) }
    ensures ok { OnOk result (Adds (IsSelectedLine selection.now part.now entry.now)
        (string_bytes text.old) (string_bytes text.new)) }
    ensures memory { IfErr result (λ e. e ≡ Error.Memory) }
{
    if selection.has_entry(entry) {
        return append_entry_line(part, entry, known, text);
    }
    Ok(())
}

/// Appends the line of an entry: its index, and its bytes or the reason why they can't be read.
fn append_entry_line(
    part: &FilePart,
    entry: &EntryIndex,
    known: Option<ReadBlock<'_>>,
    text: &mut String,
) -> Result<()>
    requires { IfSome known (IsReadBlock part.now) }
    ensures ok { OnOk result (Adds (IsEntryLine part.now entry.now)
        (string_bytes text.old) (string_bytes text.new)) }
    ensures memory { IfErr result (λ e. e ≡ Error.Memory) }
{
    write!(text, "    {} ", entry.index)?;
    append_entry_bytes(part, entry, known, text)?;
    text.push('\n')?;
    Ok(())
}

/// Reads the bytes of an entry, and appends them or the reason why they can't be read.
fn append_entry_bytes(
    part: &FilePart,
    entry: &EntryIndex,
    known: Option<ReadBlock<'_>>,
    text: &mut String,
) -> Result<()>
    requires { IfSome known (IsReadBlock part.now) }
    ensures ok { OnOk result (Adds (IsEntryShown part.now entry.now)
        (string_bytes text.old) (string_bytes text.new)) }
    ensures memory { IfErr result (λ e. e ≡ Error.Memory) }
{
    let read = bytes_of_entry(part, entry, known)?;
    append_bytes_or_loss(part.allocator(), read, text)?;
    Ok(())
}

/// Appends the bytes of an entry that were read, or the reason why they can't be.
fn append_bytes_or_loss(alloc: Global, read: BytesOfEntry<'_>, text: &mut String) -> AllocResult<()>
    ensures { OnOk result (Adds (AreBytesShown read.entry) (string_bytes text.old) (string_bytes text.new)) }
{
    match read {
        BytesOfEntry::Read(bytes) => append_quoted_or_hex(alloc, bytes, text),
        BytesOfEntry::Lost(loss) => append_loss(loss, text),
    }
}

/// Appends that an entry can't be read, and the reason `loss` in words.
fn append_loss(loss: Loss, text: &mut String) -> AllocResult<()>
    ensures { OnOk result (Adds (λ t. t ≡ lost_text loss) (string_bytes text.old) (string_bytes text.new)) }
{
    append_unreadable(loss.words(), text)
}

/// Appends that an entry can't be read, and the reason `why`.
fn append_unreadable(why: &str, text: &mut String) -> AllocResult<()>
    ensures { OnOk result (string_bytes text.new ≡ string_bytes text.old ++ (codes "unreadable: " ++ why.now)) }
{
    write!(text, "unreadable: {why}")
}
