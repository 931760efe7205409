//! The items of batches, as lines of JSON. `known` is the entry block that was read already, so that it isn't read for each entry. Each
//! call fails for want of memory alone; some of its text may have been appended then. Many calls append one member of an object, with the
//! comma after it.

ghost use Rattle.std.specs.Prelude.{◌≡◌, ◌≤◌, ◌++◌, true, codes, length, map, option_map, string_bytes, IfErr, IfOk, IfSome, OnOk};
ghost use Rattle.std.specs.Bool.{MatchBool};
ghost use Rattle.raft_listing.specs.Dumped.{Adds, has_index};
ghost use Rattle.raft_listing.specs.ReadBlocks.{IsReadBlock};
ghost use Rattle.raft_records.specs.Item.{item_of, pair, pair_of};
ghost use Rattle.raft_report.specs.JsonItems.{AreEntryData, AreItemLines, IsChangeData, IsContentData, IsContentsMember, IsEntriesData, IsEntryData, IsItemLine, IsSelectedItemLine, block_member, bytes_member, command_data, entries_member, entry_data, group_member, index_members, key_member, last_index, length_member, lost_entry_data, op_member, read_data, shown_member, value_member};
ghost use Rattle.raft_report.specs.JsonPieces.{AreJoined, AreTrailed, IsTextOf, item_back, item_front, member_text, trailed};
ghost use Rattle.serde_json.specs.Written.{comma_if, compact_text};

use crate::json::{QueueName, append_comma_if, hex_as_json, text_as_json};
use raft_base::{AllocResult, EntryIndex, Error, FileBlockHandle, Result};
use raft_listing::{
    BytesOfEntry, Loss, ReadBlock, Selection, bytes_of_entry, group_status_of, needed_block,
};
use raft_records::{
    AtomicGroupStatus, Command, FilePart, KeyValue, LogItem, LogItemContent, OpType,
};
use std::alloc::Global;

/// Appends a line for each selected item of the batch that stands at position `at` of the part's bytes. The entry block of the batch is
/// read once, if values are selected.
///
/// # Errors
///
/// `Memory`. Some lines may then be appended.
pub(crate) fn append_json_items(
    part: &FilePart,
    at: usize,
    items: &[LogItem],
    selection: &Selection,
    text: &mut String,
) -> Result<()>
    requires { at ≤ length part.now.bytes }
    ensures ok { OnOk result (Adds (AreItemLines selection.now part.now at (map item_of items.now))
        (string_bytes text.old) (string_bytes text.new)) }
    ensures memory { IfErr result (λ e. e ≡ Error.Memory) }
{
    let block = needed_block(part, items, selection)?;
    for item in items {
        append_item_if_selected(part, at, item, selection, block, text)?;
    }
    Ok(())
}

/// Appends the line of an item if it is selected; else nothing. Its batch stands at position `at` of the part's bytes.
fn append_item_if_selected(
    part: &FilePart,
    at: usize,
    item: &LogItem,
    selection: &Selection,
    known: Option<ReadBlock<'_>>,
    text: &mut String,
) -> Result<()>
    requires inside { at ≤ length part.now.bytes }
    requires known { IfSome known (IsReadBlock part.now) }
    ensures ok { OnOk result (Adds (IsSelectedItemLine selection.now part.now at (item_of item.now))
        (string_bytes text.old) (string_bytes text.new)) }
    ensures memory { IfErr result (λ e. e ≡ Error.Memory) }
{
    if selection.has_item(item) {
        return append_json_item(part, at, item, selection, known, text);
    }
    Ok(())
}

/// Appends the line of an item, whose batch stands at position `at` of the part's bytes.
fn append_json_item(
    part: &FilePart,
    at: usize,
    item: &LogItem,
    selection: &Selection,
    known: Option<ReadBlock<'_>>,
    text: &mut String,
) -> Result<()>
    requires inside { at ≤ length part.now.bytes }
    requires known { IfSome known (IsReadBlock part.now) }
    ensures ok { OnOk result (Adds (IsItemLine selection.now part.now at (item_of item.now))
        (string_bytes text.old) (string_bytes text.new)) }
    ensures memory { IfErr result (λ e. e ≡ Error.Memory) }
{
    append_item_line_start(part, text)?;
    append_item_content(part, item, selection, known, text)?;
    append_item_line_end(part, at, item.raft_group_id, text)?;
    Ok(())
}

/// Appends the start of an item's line, up to the object that says what the item says: the number of the file.
fn append_item_line_start(part: &FilePart, text: &mut String) -> AllocResult<()>
    ensures { OnOk result (string_bytes text.new ≡ string_bytes text.old ++ item_front part.now) }
{
    write!(text, "{{\"file\":{},\"item\":", part.id().seq)
}

/// Appends the rest of an item's line, after the object that says what the item says: the offset of its batch in the file, the queue and
/// the region. Ends the line.
fn append_item_line_end(
    part: &FilePart,
    at: usize,
    region: u64,
    text: &mut String,
) -> AllocResult<()>
    requires { at ≤ length part.now.bytes }
    ensures { OnOk result (string_bytes text.new ≡ string_bytes text.old ++ item_back part.now at region) }
{
    let (name, offset) = (QueueName(part.id().queue), part.offset() + at as u64);
    writeln!(
        text,
        ",\"offset\":{offset},\"queue\":{name},\"region\":{region}}}"
    )
}

/// Appends the object that says what an item says: entries, a command, or the change of a key.
fn append_item_content(
    part: &FilePart,
    item: &LogItem,
    selection: &Selection,
    known: Option<ReadBlock<'_>>,
    text: &mut String,
) -> Result<()>
    requires { IfSome known (IsReadBlock part.now) }
    ensures ok { OnOk result (Adds (IsTextOf (IsContentData selection.now part.now (item_of item.now) (item_of item.now).content))
        (string_bytes text.old) (string_bytes text.new)) }
    ensures memory { IfErr result (λ e. e ≡ Error.Memory) }
{
    match &item.content {
        LogItemContent::EntryIndexes(entries) => {
            append_entries(part, entries.0.as_slice(), selection, known, text)
        }
        LogItemContent::Command(command) => Ok(append_command(command, text)?),
        LogItemContent::Kv(change) => append_key_change(part, item, change, selection, text),
    }
}

/// Appends the object of a command: its name, and its index if it has one.
fn append_command(command: &Command, text: &mut String) -> AllocResult<()>
    ensures { OnOk result (string_bytes text.new ≡ string_bytes text.old ++ compact_text (command_data command.now)) }
{
    match command {
        Command::Clean => text.push_str("{\"what\":\"clean\"}"),
        Command::Compact { index } => write!(text, "{{\"index\":{index},\"what\":\"compact\"}}"),
        Command::Truncate { index } => write!(text, "{{\"index\":{index},\"what\":\"truncate\"}}"),
    }
}

/// Appends the object of a change of a key: the length of its value, the key, the value if values are selected, and what is done to the
/// key. If the key value marks a batch of an atomic group, it says whether the group begins, goes on or ends there.
fn append_key_change(
    part: &FilePart,
    item: &LogItem,
    change: &KeyValue,
    selection: &Selection,
    text: &mut String,
) -> Result<()>
    requires { (item_of item.now).content ≡ pair (pair_of change.now) }
    ensures ok { OnOk result (Adds (IsTextOf (IsChangeData selection.now (item_of item.now) (pair_of change.now)))
        (string_bytes text.old) (string_bytes text.new)) }
    ensures memory { IfErr result (λ e. e ≡ Error.Memory) }
{
    let alloc = part.allocator();
    append_value_length(&change.value, text)?;
    let status = group_status_of(part, item)?;
    append_group_member(status, text)?;
    append_key_member(alloc, change.key.as_slice(), text)?;
    append_value_if_asked(alloc, &change.value, selection, text)?;
    append_op_type(change.op_type, text)?;
    Ok(())
}

/// Appends the brace that opens an object, and the number of bytes of a value as its first member, if there is a value.
fn append_value_length(value: &Option<Vec<u8>>, text: &mut String) -> AllocResult<()>
    ensures { OnOk result (string_bytes text.new
        ≡ string_bytes text.old ++ (codes "{" ++ trailed (bytes_member (option_map (λ v. v.items) value.now)))) }
{
    match value {
        Some(value) => write!(text, "{{\"bytes\":{},", value.len()),
        None => text.push_str("{"),
    }
}

/// Appends a member which says that an atomic group begins, goes on or ends; nothing for `None`.
fn append_group_member(status: Option<AtomicGroupStatus>, text: &mut String) -> AllocResult<()>
    ensures { OnOk result (string_bytes text.new ≡ string_bytes text.old ++ trailed (group_member status)) }
{
    match status {
        None => Ok(()),
        Some(AtomicGroupStatus::Begin) => text.push_str("\"group\":\"begins\","),
        Some(AtomicGroupStatus::Middle) => text.push_str("\"group\":\"goes on\","),
        Some(AtomicGroupStatus::End) => text.push_str("\"group\":\"ends\","),
    }
}

/// Appends a key as a member, in hex.
fn append_key_member(alloc: Global, key: &[u8], text: &mut String) -> AllocResult<()>
    ensures { OnOk result (string_bytes text.new ≡ string_bytes text.old ++ trailed (key_member key.now)) }
{
    let key = hex_as_json(alloc, key)?;
    write!(text, "\"key\":{key},")
}

/// Appends a value as a member, in hex, if there is one and values are selected; else nothing.
fn append_value_if_asked(
    alloc: Global,
    value: &Option<Vec<u8>>,
    selection: &Selection,
    text: &mut String,
) -> AllocResult<()>
    ensures { OnOk result (string_bytes text.new
        ≡ string_bytes text.old ++ trailed (value_member selection.now (option_map (λ v. v.items) value.now))) }
{
    match value {
        Some(value) if selection.values => append_value_member(alloc, value.as_slice(), text),
        _ => Ok(()),
    }
}

/// Appends the bytes of a value as a member, in hex.
fn append_value_member(alloc: Global, value: &[u8], text: &mut String) -> AllocResult<()>
    ensures { OnOk result (string_bytes text.new
        ≡ string_bytes text.old ++ trailed (shown_member value.now)) }
{
    let value = hex_as_json(alloc, value)?;
    write!(text, "\"value\":{value},")
}

/// Appends what is done to a key as the last member, and the brace that closes the object.
fn append_op_type(op_type: OpType, text: &mut String) -> AllocResult<()>
    ensures { OnOk result (string_bytes text.new ≡ string_bytes text.old ++ (member_text (op_member op_type) ++ codes "}")) }
{
    match op_type {
        OpType::Put => text.push_str("\"what\":\"put\"}"),
        OpType::Del => text.push_str("\"what\":\"delete\"}"),
    }
}

/// Appends the object of an item's entries: the first and the last index, the offset and the length of the block that the first entry
/// names, and, if values are selected, the bytes of the selected entries.
fn append_entries(
    part: &FilePart,
    entries: &[EntryIndex],
    selection: &Selection,
    known: Option<ReadBlock<'_>>,
    text: &mut String,
) -> Result<()>
    requires { IfSome known (IsReadBlock part.now) }
    ensures ok { OnOk result (Adds (IsTextOf (IsEntriesData selection.now part.now entries.now))
        (string_bytes text.old) (string_bytes text.new)) }
    ensures memory { IfErr result (λ e. e ≡ Error.Memory) }
{
    let Some(first) = entries.first() else {
        text.push_str("{\"what\":\"entries\"}")?;
        return Ok(());
    };
    append_block_offset(&first.entries, text)?;
    append_entries_if_asked(part, entries, selection, known, text)?;
    append_index_members(first.index, last_index(entries, first.index), text)?;
    append_block_length(&first.entries, text)?;
    append_entries_word(text)?;
    Ok(())
}

/// Returns the index of the last entry, or `first` if `entries` is empty.
fn last_index(entries: &[EntryIndex], first: u64) -> u64
    ensures { result ≡ last_index entries.now first }
{
    match entries.last() {
        Some(last) => last.index,
        None => first,
    }
}

/// Appends the brace that opens an object, and the offset of an entry block as its first member; no member for `None`.
fn append_block_offset(place: &Option<FileBlockHandle>, text: &mut String) -> AllocResult<()>
    ensures { OnOk result (string_bytes text.new ≡ string_bytes text.old ++ (codes "{" ++ trailed (block_member place.now))) }
{
    match place {
        Some(place) => write!(text, "{{\"block\":{},", place.offset),
        None => text.push_str("{"),
    }
}

/// Appends the first and the last index of entries, both included, as two members.
fn append_index_members(first: u64, last: u64, text: &mut String) -> AllocResult<()>
    ensures { OnOk result (string_bytes text.new ≡ string_bytes text.old ++ trailed (index_members first last)) }
{
    write!(text, "\"first\":{first},\"last\":{last},")
}

/// Appends the length in bytes of an entry block as a member; nothing for `None`.
fn append_block_length(place: &Option<FileBlockHandle>, text: &mut String) -> AllocResult<()>
    ensures { OnOk result (string_bytes text.new ≡ string_bytes text.old ++ trailed (length_member place.now)) }
{
    match place {
        Some(place) => write!(text, "\"length\":{},", place.len),
        None => Ok(()),
    }
}

/// Appends `entries` as the last member, which says what the item is, and the brace that closes the object.
fn append_entries_word(text: &mut String) -> AllocResult<()>
    ensures { OnOk result (string_bytes text.new ≡ string_bytes text.old ++ (member_text entries_member ++ codes "}")) }
{
    text.push_str("\"what\":\"entries\"}")
}

/// Appends the list of the selected entries, with their bytes, as a member if values are selected; else nothing.
fn append_entries_if_asked(
    part: &FilePart,
    entries: &[EntryIndex],
    selection: &Selection,
    known: Option<ReadBlock<'_>>,
    text: &mut String,
) -> Result<()>
    requires { IfSome known (IsReadBlock part.now) }
    ensures ok { OnOk result (Adds (AreTrailed (IsContentsMember selection.now part.now entries.now))
        (string_bytes text.old) (string_bytes text.new)) }
    ensures memory { IfErr result (λ e. e ≡ Error.Memory) }
{
    if !selection.values {
        return Ok(());
    }
    text.push_str("\"entries\":[")?;
    append_entry_list(part, entries, selection, known, text)?;
    text.push_str("],")?;
    Ok(())
}

/// Appends the objects of the selected entries, with a comma between each two.
fn append_entry_list(
    part: &FilePart,
    entries: &[EntryIndex],
    selection: &Selection,
    known: Option<ReadBlock<'_>>,
    text: &mut String,
) -> Result<()>
    requires { IfSome known (IsReadBlock part.now) }
    ensures ok { OnOk result (Adds (AreJoined (AreEntryData selection.now part.now entries.now))
        (string_bytes text.old) (string_bytes text.new)) }
    ensures memory { IfErr result (λ e. e ≡ Error.Memory) }
{
    let mut later = false;
    for entry in entries {
        later = append_entry_if_selected(part, entry, selection, known, later, text)?;
    }
    Ok(())
}

/// Appends the object of an entry if it is selected, after a comma if `later` is set: another entry comes before it in the list. Returns
/// whether an entry comes before the next one.
fn append_entry_if_selected(
    part: &FilePart,
    entry: &EntryIndex,
    selection: &Selection,
    known: Option<ReadBlock<'_>>,
    later: bool,
    text: &mut String,
) -> Result<bool>
    requires { IfSome known (IsReadBlock part.now) }
    ensures ok { IfOk result (λ next. MatchBool (has_index selection.now entry.now)
        ((next ≡ true) × Adds (IsTextOf (IsEntryData part.now entry.now)) (string_bytes text.old ++ comma_if later) (string_bytes text.new))
        ((next ≡ later) × (string_bytes text.new ≡ string_bytes text.old))) }
    ensures memory { IfErr result (λ e. e ≡ Error.Memory) }
{
    if !selection.has_entry(entry) {
        return Ok(later);
    }
    append_comma_if(later, text)?;
    let read = bytes_of_entry(part, entry, known)?;
    append_entry_object(part.allocator(), entry.index, read, text)?;
    Ok(true)
}

/// Appends the object of the entry with the index `index`: its bytes in hex, or `null` and the reason why they can't be read.
fn append_entry_object(
    alloc: Global,
    index: u64,
    read: BytesOfEntry<'_>,
    text: &mut String,
) -> AllocResult<()>
    ensures { OnOk result (string_bytes text.new ≡ string_bytes text.old ++ compact_text (entry_data index read.entry)) }
{
    match read {
        BytesOfEntry::Read(bytes) => append_read_entry(alloc, index, bytes, text),
        BytesOfEntry::Lost(loss) => append_lost_entry(alloc, index, loss, text),
    }
}

/// Appends the object of the entry with the index `index`, whose bytes could be read; they are in hex.
fn append_read_entry(alloc: Global, index: u64, bytes: &[u8], text: &mut String) -> AllocResult<()>
    ensures { OnOk result (string_bytes text.new ≡ string_bytes text.old ++ compact_text (read_data index bytes.now)) }
{
    let bytes = hex_as_json(alloc, bytes)?;
    write!(text, "{{\"bytes\":{bytes},\"index\":{index}}}")
}

/// Appends the object of the entry with the index `index`, whose bytes can't be read: `null` in place of them, and the reason.
fn append_lost_entry(alloc: Global, index: u64, loss: Loss, text: &mut String) -> AllocResult<()>
    ensures { OnOk result (string_bytes text.new ≡ string_bytes text.old ++ compact_text (lost_entry_data index loss)) }
{
    let why = text_as_json(alloc, loss.words())?;
    write!(text, "{{\"bytes\":null,\"index\":{index},\"why\":{why}}}")
}
