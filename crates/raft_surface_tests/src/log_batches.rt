//! Log batches, which `raft_records` exports.
//!
//! Each function pins names or types: it compiles only as long as these are there as it writes them. None is called for
//! its effect, but where the test at the end says so.

use raft_records::codec::BytesSlice;
use raft_records::{
    Command, CompressionType, EntryIndex, Error, FileBlockHandle, LogBatch, LogFileContext,
    LogItem, Message, MessageExt, ReactiveBytes, Result,
};
use std::alloc::Global;
use std::vec;

/// Compiles only as long as these functions of `LogBatch` have these types: `default`, `with_capacity`, `is_empty`,
/// `is_open`, `is_sealed`, `approximate_size`, `drain`, `merge` and `clone`.
fn batches() {
    let _default: fn(Global) -> LogBatch = LogBatch::default;
    let _with_capacity: fn(Global, usize) -> Result<LogBatch> = LogBatch::with_capacity;
    let _is_empty: fn(&LogBatch) -> bool = LogBatch::is_empty;
    let _is_open: fn(&LogBatch) -> bool = LogBatch::is_open;
    let _is_sealed: fn(&LogBatch) -> bool = LogBatch::is_sealed;
    let _approximate_size: fn(&LogBatch) -> usize = LogBatch::approximate_size;
    let _drain: fn(&mut LogBatch) -> vec::IntoIter<LogItem> = LogBatch::drain;
    let _merge: fn(&mut LogBatch, &mut LogBatch) -> Result<()> = LogBatch::merge;
    let _clone: fn(&LogBatch) -> Result<LogBatch> = LogBatch::clone;
}

/// Compiles only as long as `LogBatch::items` takes `batch`, and returns `&[LogItem]`.
fn items_of_batches<'a>(batch: &'a LogBatch) -> &'a [LogItem] {
    LogBatch::items(batch)
}

/// Compiles only as long as these functions of `LogBatch` have these types: `add_raw_entries`, `add_joined_entries`,
/// `add_command`, `delete` and `put`.
fn changes() {
    let _add_raw_entries: fn(&mut LogBatch, u64, Vec<EntryIndex>, Vec<Vec<u8>>) -> Result<()> =
        LogBatch::add_raw_entries;
    let _add_joined_entries: fn(&mut LogBatch, u64, Vec<EntryIndex>, &[u8]) -> Result<()> =
        LogBatch::add_joined_entries;
    let _add_command: fn(&mut LogBatch, u64, Command) -> Result<()> = LogBatch::add_command;
    let _delete: fn(&mut LogBatch, u64, Vec<u8>) -> Result<()> = LogBatch::delete;
    let _put: fn(&mut LogBatch, u64, Vec<u8>, Vec<u8>) -> Result<()> = LogBatch::put;
}

/// Compiles only as long as `LogBatch::add_entries` takes a slice of the entries of any `MessageExt`.
fn add_entries_of_changes<M: MessageExt>(
    batch: &mut LogBatch,
    region: u64,
    entries: &[M::Entry],
) -> Result<()> {
    if !batch.is_open() {
        return Err(Error::Failed);
    }
    LogBatch::add_entries::<M>(batch, region, entries)
}

/// Compiles only as long as `LogBatch::put_message` takes any `Message`.
fn put_message_of_changes<S: Message>(
    batch: &mut LogBatch,
    region: u64,
    key: Vec<u8>,
    message: &S,
) -> Result<()> {
    if !batch.is_open() {
        return Err(Error::Failed);
    }
    LogBatch::put_message::<S>(batch, region, key, message)
}

/// Compiles only as long as `LogBatch::finish_populate`, `LogBatch::prepare_write`, `LogBatch::finish_write` and
/// `<LogBatch as ReactiveBytes>::ready` have these types.
fn writes() {
    let _finish_populate: fn(&mut LogBatch) -> Result<usize> = LogBatch::finish_populate;
    let _prepare_write: fn(&mut LogBatch, &LogFileContext) = LogBatch::prepare_write;
    let _finish_write: fn(&mut LogBatch, FileBlockHandle) = LogBatch::finish_write;
    let _ready: fn(&LogBatch) -> bool = <LogBatch as ReactiveBytes>::ready;
}

/// Returns the bytes of a signed batch, by `LogBatch::encoded_bytes`; `None` for a batch that isn't signed.
fn encoded_bytes_of_writes<'a>(batch: &'a LogBatch) -> Option<&'a [u8]> {
    if !batch.is_sealed() {
        return None;
    }
    Some(LogBatch::encoded_bytes(batch))
}

/// Returns the bytes of a batch, signed for a file; `None` if they aren't made yet.
fn as_bytes_of_writes<'a>(batch: &'a mut LogBatch, context: &LogFileContext) -> Option<&'a [u8]> {
    if !batch.ready() {
        return None;
    }
    Some(<LogBatch as ReactiveBytes>::as_bytes(batch, context))
}

/// Compiles only as long as `LogBatch::decode_entries_block` has this type.
fn reads() {
    let _block: fn(Global, &[u8], FileBlockHandle, CompressionType) -> Result<Vec<u8>> =
        LogBatch::decode_entries_block;
}

/// Compiles only as long as `LogBatch::decode_header` takes `alloc` and `bytes`, and returns `Result<(usize,
/// CompressionType, usize)>`.
fn header_of_reads(
    alloc: Global,
    bytes: &mut BytesSlice<'_>,
) -> Result<(usize, CompressionType, usize)> {
    LogBatch::decode_header(alloc, bytes)
}

/// Tests that the names above are exported with these types, and that what they give is as it is written here.
#[test]
fn log_batches_are_handed_on(rt: HostRuntime) {
    batches();
    changes();
    writes();
    reads();
    let batch = LogBatch::default(rt.alloc());
    assert!(rt; batch.is_open() && batch.is_empty() && items_of_batches(&batch).is_empty());
    assert!(rt; encoded_bytes_of_writes(&batch).is_none());
}
