//! Items and batches of items, which `raft_records` exports.
//!
//! Each function pins names or types: it compiles only as long as these are there as it writes them. None is called for
//! its effect, but where the test at the end says so.

use raft_records::codec::BytesSlice;
use raft_records::{
    ATOMIC_GROUP_KEY, AtomicGroupBuilder, AtomicGroupStatus, Command, CompressionType, EntryIndex,
    EntryIndexes, FileBlockHandle, FileId, KeyValue, LogBatch, LogFileContext, LogItem,
    LogItemBatch, LogItemContent, LogQueue, Message, OpType, Result, is_consecutive, is_reserved,
};
use std::alloc::Global;
use std::{slice, vec};

/// Compiles only as long as `is_consecutive`, `EntryIndexes::encode` and `EntryIndexes::clone` have these types.
fn entries() {
    let _is_consecutive: fn(&[EntryIndex]) -> bool = is_consecutive;
    let _encode: fn(&EntryIndexes, &mut Vec<u8>) -> Result<()> = EntryIndexes::encode;
    let _clone: fn(&EntryIndexes) -> Result<EntryIndexes> = EntryIndexes::clone;
}

/// Compiles only as long as `EntryIndexes::decode` takes `alloc`, `bytes` and `entries_size`, and returns
/// `Result<EntryIndexes>`.
fn decode_of_entries(
    alloc: Global,
    bytes: &mut BytesSlice<'_>,
    entries_size: &mut u32,
) -> Result<EntryIndexes> {
    EntryIndexes::decode(alloc, bytes, entries_size)
}

/// Compiles only as long as `Command::encode` has this type.
fn commands() {
    let _encode: fn(&Command, &mut Vec<u8>) -> Result<()> = Command::encode;
}

/// Compiles only as long as `Command::decode` takes `alloc` and `bytes`, and returns `Result<Command>`.
fn decode_of_commands(alloc: Global, bytes: &mut BytesSlice<'_>) -> Result<Command> {
    Command::decode(alloc, bytes)
}

/// Compiles only as long as these have these types: `from_u8` and `to_u8` of `OpType`; `new`, `encode` and `clone` of
/// `KeyValue`.
fn key_values() {
    let _from_u8: fn(Global, u8) -> Result<OpType> = OpType::from_u8;
    let _to_u8: fn(OpType) -> u8 = OpType::to_u8;
    let _new: fn(OpType, Vec<u8>, Option<Vec<u8>>) -> KeyValue = KeyValue::new;
    let _encode: fn(&KeyValue, &mut Vec<u8>) -> Result<()> = KeyValue::encode;
    let _clone: fn(&KeyValue) -> Result<KeyValue> = KeyValue::clone;
}

/// Compiles only as long as `KeyValue::decode` takes `alloc` and `bytes`, and returns `Result<KeyValue>`.
fn decode_of_key_values(alloc: Global, bytes: &mut BytesSlice<'_>) -> Result<KeyValue> {
    KeyValue::decode(alloc, bytes)
}

/// Compiles only as long as these have these types: `new_entry_indexes`, `new_command`, `new_kv`, `encode` and `clone`
/// of `LogItem`; `clone` of `LogItemContent`.
fn items() {
    let _new_entry_indexes: fn(u64, Vec<EntryIndex>) -> LogItem = LogItem::new_entry_indexes;
    let _new_command: fn(u64, Command) -> LogItem = LogItem::new_command;
    let _new_kv: fn(u64, OpType, Vec<u8>, Option<Vec<u8>>) -> LogItem = LogItem::new_kv;
    let _encode: fn(&LogItem, &mut Vec<u8>) -> Result<()> = LogItem::encode;
    let _clone: fn(&LogItem) -> Result<LogItem> = LogItem::clone;
    let _clone_content: fn(&LogItemContent) -> Result<LogItemContent> = LogItemContent::clone;
}

/// Compiles only as long as `LogItem::decode` takes `alloc`, `bytes` and `entries_size`, and returns `Result<LogItem>`.
fn decode_of_items(
    alloc: Global,
    bytes: &mut BytesSlice<'_>,
    entries_size: &mut u32,
) -> Result<LogItem> {
    LogItem::decode(alloc, bytes, entries_size)
}

/// Compiles only as long as these functions of `LogItemBatch` have these types: `default`, `with_capacity`,
/// `into_items`, `drain`, `merge`, `entries_size`, `approximate_size`, `entry_index` and `clone`.
fn batches() {
    let _default: fn(Global) -> LogItemBatch = LogItemBatch::default;
    let _with_capacity: fn(Global, usize) -> Result<LogItemBatch> = LogItemBatch::with_capacity;
    let _into_items: fn(LogItemBatch) -> Vec<LogItem> = LogItemBatch::into_items;
    let _drain: fn(&mut LogItemBatch) -> vec::IntoIter<LogItem> = LogItemBatch::drain;
    let _merge: fn(&mut LogItemBatch, &mut LogItemBatch) -> Result<()> = LogItemBatch::merge;
    let _entries_size: fn(&LogItemBatch) -> u32 = LogItemBatch::entries_size;
    let _approximate_size: fn(&LogItemBatch) -> usize = LogItemBatch::approximate_size;
    let _entry_index: fn(&LogItemBatch) -> Option<EntryIndex> = LogItemBatch::entry_index;
    let _clone: fn(&LogItemBatch) -> Result<LogItemBatch> = LogItemBatch::clone;
}

/// Compiles only as long as `LogItemBatch::iter` takes `batch`, and returns `slice::Iter<'a, LogItem>`.
fn iter_of_batches<'a>(batch: &'a LogItemBatch) -> slice::Iter<'a, LogItem> {
    LogItemBatch::iter(batch)
}

/// Compiles only as long as `LogItemBatch::as_slice` takes `batch`, and returns `&[LogItem]`.
fn as_slice_of_batches<'a>(batch: &'a LogItemBatch) -> &'a [LogItem] {
    LogItemBatch::as_slice(batch)
}

/// Compiles only as long as `LogItemBatch::add_entry_indexes`, `LogItemBatch::add_command`, `LogItemBatch::delete` and
/// `LogItemBatch::put` have these types.
fn changes_of_batches<S: Message>() {
    let _add_entry_indexes: fn(&mut LogItemBatch, u64, Vec<EntryIndex>) -> Result<()> =
        LogItemBatch::add_entry_indexes;
    let _add_command: fn(&mut LogItemBatch, u64, Command) -> Result<()> = LogItemBatch::add_command;
    let _delete: fn(&mut LogItemBatch, u64, Vec<u8>) -> Result<()> = LogItemBatch::delete;
    let _put: fn(&mut LogItemBatch, u64, Vec<u8>, Vec<u8>) -> Result<()> = LogItemBatch::put;
}

/// Compiles only as long as `LogItemBatch::put_message` takes any `Message`.
fn put_message_of_changes_of_batches<S: Message>(
    batch: &mut LogItemBatch,
    number: u64,
    key: Vec<u8>,
    message: &S,
) -> Result<()> {
    LogItemBatch::put_message::<S>(batch, number, key, message)
}

/// Compiles only as long as `LogItemBatch::encode`, `LogItemBatch::prepare_write` and `LogItemBatch::decoded_in` have
/// these types.
fn bytes_of_batches() {
    let _encode: fn(&mut LogItemBatch, &mut Vec<u8>) -> Result<()> = LogItemBatch::encode;
    let _prepare_write: fn(&LogItemBatch, &mut [u8], &LogFileContext) = LogItemBatch::prepare_write;
    let _decoded_in: fn(&LogItemBatch) -> Option<FileId> = LogItemBatch::decoded_in;
}

/// Compiles only as long as `LogItemBatch::decode` takes `alloc`, `bytes`, `handle`, `compression_type` and `context`,
/// and returns `Result<LogItemBatch>`.
fn decode_of_bytes_of_batches(
    alloc: Global,
    bytes: &mut BytesSlice<'_>,
    handle: FileBlockHandle,
    compression_type: CompressionType,
    context: &LogFileContext,
) -> Result<LogItemBatch> {
    LogItemBatch::decode(alloc, bytes, handle, compression_type, context)
}

/// Compiles only as long as these have these types: `parse` of `AtomicGroupStatus`; `with_id`, `begin`, `add`, `end`
/// and `state` of `AtomicGroupBuilder`; `is_reserved`.
fn groups() {
    let _parse: fn(Global, &LogItem) -> Result<Option<(u64, AtomicGroupStatus)>> =
        AtomicGroupStatus::parse;
    let _with_id: fn(u64) -> AtomicGroupBuilder = AtomicGroupBuilder::with_id;
    let _begin: fn(&mut AtomicGroupBuilder, &mut LogBatch) -> Result<()> =
        AtomicGroupBuilder::begin;
    let _add: fn(&mut AtomicGroupBuilder, &mut LogBatch) -> Result<()> = AtomicGroupBuilder::add;
    let _end: fn(&mut AtomicGroupBuilder, &mut LogBatch) -> Result<()> = AtomicGroupBuilder::end;
    let _state: fn(&AtomicGroupBuilder) -> Option<AtomicGroupStatus> = AtomicGroupBuilder::state;
    let _is_reserved: fn(&[u8]) -> bool = is_reserved;
}

/// Makes a key value and an item, by the names and types of all fields.
fn item_of(raft_group_id: u64, key: Vec<u8>, value: Option<Vec<u8>>, file: FileId) -> LogItem {
    let content = LogItemContent::Kv(KeyValue {
        op_type: OpType::Put,
        key,
        value,
        file_id: Some(file),
    });
    LogItem {
        raft_group_id,
        content,
    }
}

/// Returns the entries of an item, by the names and types of all fields; `None` for other contents.
fn entries_of(item: LogItem) -> Option<Vec<EntryIndex>> {
    match item.content {
        LogItemContent::EntryIndexes(EntryIndexes(entries)) => Some(entries),
        _ => None,
    }
}

/// Returns the index of a command. The match names every variant.
fn index_of(command: &Command) -> Option<u64> {
    match command {
        Command::Clean => None,
        Command::Compact { index } => Some(*index),
        Command::Truncate { index } => Some(*index),
    }
}

/// Returns the number of a group marker's status. The match names every variant.
fn number_of(status: AtomicGroupStatus) -> u8 {
    match status {
        AtomicGroupStatus::Begin => AtomicGroupStatus::Begin as u8,
        AtomicGroupStatus::Middle => AtomicGroupStatus::Middle as u8,
        AtomicGroupStatus::End => AtomicGroupStatus::End as u8,
    }
}

/// Returns a word for what an item says. The match names every variant.
fn kind_of(item: &LogItem) -> &'static str {
    let LogItem {
        raft_group_id: _,
        content,
    } = item;
    match content {
        LogItemContent::EntryIndexes(EntryIndexes(_)) => "entries",
        LogItemContent::Command(Command::Clean) => "clean",
        LogItemContent::Command(Command::Compact { index: _ }) => "compact",
        LogItemContent::Command(Command::Truncate { index: _ }) => "truncate",
        LogItemContent::Kv(KeyValue { op_type, .. }) => match op_type {
            OpType::Put => "put",
            OpType::Del => "del",
        },
    }
}

/// Tests that the names above are exported with these types, and that what they give is as it is written here.
#[test]
fn items_are_handed_on(rt: HostRuntime) {
    entries();
    commands();
    key_values();
    items();
    batches();
    bytes_of_batches();
    groups();
    let clean = LogItem::new_command(7, Command::Clean);
    assert!(rt; kind_of(&clean) == "clean" && is_reserved(&ATOMIC_GROUP_KEY));
    assert!(rt; number_of(AtomicGroupStatus::Begin) == 0 && OpType::Put as u8 == 1);
    assert!(rt; number_of(AtomicGroupStatus::Middle) == 1 && OpType::Del as u8 == 2);
    assert!(rt; number_of(AtomicGroupStatus::End) == 2 && entries_of(clean).is_none());
    assert!(rt; index_of(&Command::Truncate { index: 7 }) == Some(7));
    let file = FileId::new(LogQueue::Append, 1);
    let put = item_of(7, Vec::new(rt.alloc()), None, file);
    assert!(rt; kind_of(&put) == "put" && put.raft_group_id == 7);
}
