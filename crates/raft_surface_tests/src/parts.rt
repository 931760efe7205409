//! Parts of files, laws and printing, which `raft_records` exports, and what it exports of `raft_base`.
//!
//! Each function pins names or types: it compiles only as long as these are there as it writes them. None is called for
//! its effect, but where the test at the end says so.

use raft_records::laws::{
    batches_belong_to_one_file, contents_are_read_again, items_are_read_again,
    log_batches_are_read_again, log_batches_belong_to_one_file, placed_items_are_read,
    written_batches_are_next,
};
use raft_records::{
    AllocResult, B, EntryIndex, Error, Factory, FileBlockHandle, FileId, FilePart, FileSeq, GIB,
    KIB, LogFileContext, LogItemBatch, LogQueue, MIB, MessageError, PIB, PipeLog, ReadableSize,
    Result, SizeError, TIB, Version, batch_text, compression_type, crc32, entries_block_in,
    entry_bytes, entry_index, errors, hash_u64, message, next_batch, next_in, pipe_log,
    print_batch, readable_front, round_down, round_up, size_from_value, unhash_u64, util,
};
use std::alloc::{AllocError, Global};
use std::io::{Read, Write};

/// Compiles only as long as these have these types: `new`, `id`, `version`, `offset`, `split_off` and `clone` of
/// `FilePart`; `next_batch` and `readable_front`.
fn parts() {
    let _new: fn(FileId, Version, u64, Vec<u8>) -> Result<FilePart> = FilePart::new;
    let _id: fn(&FilePart) -> FileId = FilePart::id;
    let _version: fn(&FilePart) -> Version = FilePart::version;
    let _offset: fn(&FilePart) -> u64 = FilePart::offset;
    let _split_off: fn(&mut FilePart, usize) -> Result<FilePart> = FilePart::split_off;
    let _next_batch: fn(&FilePart, usize) -> Result<Option<(LogItemBatch, usize)>> = next_batch;
    let _clone: fn(&FilePart) -> Result<FilePart> = FilePart::clone;
    let _readable_front: fn(&FilePart) -> (usize, Option<Error>) = readable_front;
}

/// Returns the first batch in the bytes of a file, which stand there from an offset below 2^32 on; `None` for
/// 2^32 bytes or more.
///
/// # Errors
///
/// Those of `next_in`.
fn next_in_of_parts(
    alloc: Global,
    file: &LogFileContext,
    offset: u32,
    bytes: &[u8],
) -> Result<Option<(LogItemBatch, usize)>> {
    if bytes.len() >= 1 << 32 {
        return Ok(None);
    }
    let offset: u64 = u64::from(offset);
    let at: usize = 0;
    next_in(alloc, file, offset, bytes, at)
}

/// Compiles only as long as `entries_block_in` takes `part` and `place`, and returns `Result<&[u8]>`.
fn entries_block_in_of_parts<'a>(part: &'a FilePart, place: FileBlockHandle) -> Result<&'a [u8]> {
    entries_block_in(part, place)
}

/// Compiles only as long as `entry_bytes` takes `alloc`, `entries` and `entry`, and returns `Result<&[u8]>`.
fn entry_bytes_of_parts<'a>(
    alloc: Global,
    entries: &'a [u8],
    entry: &EntryIndex,
) -> Result<&'a [u8]> {
    entry_bytes(alloc, entries, entry)
}

/// Compiles only as long as `FilePart::bytes` takes `part`, and returns `&[u8]`.
fn bytes_of_parts<'a>(part: &'a FilePart) -> &'a [u8] {
    FilePart::bytes(part)
}

/// Compiles only as long as `batch_text` has this type.
fn prints<R: Read, W: Write>() {
    let _batch_text: fn(Global, &[u8], &LogFileContext) -> Result<String> = batch_text;
}

/// Compiles only as long as `print_batch` takes `alloc`, `reader`, `writer` and `context`, and returns `Result<()>`.
fn print_batch_of_prints<R: Read, W: Write>(
    alloc: Global,
    reader: &mut R,
    writer: &mut W,
    context: &LogFileContext,
) -> Result<()> {
    print_batch::<R, W>(alloc, reader, writer, context)
}

/// Compiles only as long as `raft_records` exports its laws under these names.
fn laws() {
    items_are_read_again();
    contents_are_read_again();
    batches_belong_to_one_file();
    log_batches_are_read_again();
    log_batches_belong_to_one_file();
    written_batches_are_next();
    placed_items_are_read();
}

/// Compiles only as long as `raft_records` exports these names of `raft_base`.
fn names_of_the_base() {
    let _hash_u64: fn(u64) -> u64 = hash_u64;
    let _unhash_u64: fn(u64) -> u64 = unhash_u64;
    let _crc32: fn(&[u8]) -> u32 = crc32;
    let _round_up: fn(usize, usize) -> usize = round_up;
    let _round_down: fn(usize, usize) -> usize = round_down;
    let _kb: fn(u64) -> ReadableSize = ReadableSize::kb;
    let _size_from_value = size_from_value;
    let _units: [u64; 6] = [B, KIB, MIB, GIB, TIB, PIB];
    let _util: fn(u64) -> u64 = util::hash_u64;
    let _new: fn(LogQueue, FileSeq) -> FileId = FileId::new;
    let _file_at = |unit: SizeError| unit;
    let _no_memory: AllocResult<u8> = Err(AllocError);
}

/// Compiles only as long as `raft_records` exports these modules of `raft_base`.
fn modules_of_the_base() {
    let _entry: entry_index::EntryIndex = EntryIndex::default();
    let _compression = compression_type::CompressionType::None;
    let _error: errors::Error = Error::Failed;
    let _no_memory: errors::AllocResult<u8> = Err(AllocError);
    let _refused: message::MessageError = MessageError::Memory;
    let _version: pipe_log::Version = Version::V1;
}

/// Compiles only as long as `PipeLog::sync` takes `pipe` and `queue`, and returns `Result<()>`.
fn sync_of_traits_of_the_base<P: PipeLog, T, F: Factory<T>>(
    pipe: &P,
    queue: LogQueue,
) -> Result<()> {
    P::sync(pipe, queue)
}

/// Compiles only as long as `Factory::new_target` takes `factory` and `alloc`, and returns `Result<T>`.
fn new_target_of_traits_of_the_base<P: PipeLog, T, F: Factory<T>>(
    factory: &F,
    alloc: Global,
) -> Result<T> {
    F::new_target(factory, alloc)
}

/// Tests that the names above are exported with these types, and that what they give is as it is written here.
#[test]
fn parts_are_handed_on(_rt: HostRuntime) {
    parts();
    prints::<&[u8], Vec<u8>>();
    laws();
    names_of_the_base();
    modules_of_the_base();
}
