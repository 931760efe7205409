//! Names that `raft_base` exports, other than those of codecs.
//!
//! Each function pins names or types: it compiles only as long as these are there as it writes them. None is called for
//! its effect, but where the test at the end says so.

use raft_base::{
    AllocResult, B, CompressionType, EntryIndex, Error, Factory, FileBlockHandle, FileId, FileSeq,
    GIB, KIB, LogFileContext, LogQueue, MIB, Message, MessageError, MessageExt, PIB, PipeLog,
    ReactiveBytes, ReadableSize, Result, SizeError, TIB, Version, codec, compression_type, crc32,
    entry_index, errors, hash_u64, message, pipe_log, round_down, round_up, size_from_value,
    unhash_u64, util,
};
use std::alloc::{AllocError, Global};
use std::convert::AsSlice;
use std::io;
use std::ops::{Div, Mul};
use std::str::FromStr;

/// Returns a word for each error. The match names every variant, so that one more is refused here.
fn word_of(error: &Error) -> &'static str {
    match error {
        Error::InvalidArgument(_) => "invalid argument",
        Error::Corruption(_) => "corruption",
        Error::Io(_) => "io",
        Error::Codec(_) => "codec",
        Error::Message(_) => "message",
        Error::TryAgain(_) => "try again",
        Error::EntryCompacted => "entry compacted",
        Error::EntryNotFound => "entry not found",
        Error::Full => "full",
        Error::Other(_) => "other",
        Error::Memory => "memory",
        Error::Failed => "failed",
    }
}

/// Returns the text of an error that has one.
fn text_of(error: Error) -> Option<String> {
    match error {
        Error::InvalidArgument(text) => Some(text),
        Error::Corruption(text) => Some(text),
        Error::TryAgain(text) => Some(text),
        Error::Other(text) => Some(text),
        _ => None,
    }
}

/// Returns the errors that have another error inside.
fn error_of(io: io::Error, codec: codec::Error, message: MessageError) -> [Error; 3] {
    [Error::Io(io), Error::Codec(codec), Error::Message(message)]
}

/// Returns the number with which a message was refused. The match names every variant of the error.
fn refused_with(error: MessageError) -> Option<u32> {
    match error {
        MessageError::Refused(number) => Some(number),
        MessageError::Memory => None,
    }
}

/// Compiles only as long as an `Error` can be made of an `io::Error`, a `codec::Error`, a `MessageError` and an
/// `AllocError`, and a `codec::Error` of an `io::Error`.
fn errors_of_others() {
    let _of_io: fn(io::Error) -> Error = <Error as From<io::Error>>::from;
    let _of_codec: fn(codec::Error) -> Error = <Error as From<codec::Error>>::from;
    let _of_message: fn(MessageError) -> Error = <Error as From<MessageError>>::from;
    let _of_alloc: fn(AllocError) -> Error = <Error as From<AllocError>>::from;
    let _codec_of_io: fn(io::Error) -> codec::Error = <codec::Error as From<io::Error>>::from;
}

/// Returns a number for each error of a size. The match names every variant.
fn number_of(error: SizeError) -> u8 {
    match error {
        SizeError::Empty => 0,
        SizeError::NotAscii => 1,
        SizeError::Unit => 2,
        SizeError::Number => 3,
        SizeError::Digits => 4,
        SizeError::Kind => 5,
    }
}

/// Compiles only as long as a `ReadableSize` is made by `kb`, `mb`, `gb`, a text and a TOML value, turned into
/// megabytes, divided and multiplied.
fn sizes() {
    let _kb: fn(u64) -> ReadableSize = ReadableSize::kb;
    let _mb: fn(u64) -> ReadableSize = ReadableSize::mb;
    let _gb: fn(u64) -> ReadableSize = ReadableSize::gb;
    let _as_mb: fn(ReadableSize) -> u64 = ReadableSize::as_mb;
    let _part: fn(ReadableSize, u64) -> ReadableSize = <ReadableSize as Div<u64>>::div;
    let _times: fn(ReadableSize, ReadableSize) -> u64 = <ReadableSize as Div<ReadableSize>>::div;
    let _product: fn(ReadableSize, u64) -> ReadableSize = <ReadableSize as Mul<u64>>::mul;
    let _from_str: fn(&str) -> std::result::Result<ReadableSize, SizeError> =
        <ReadableSize as FromStr>::from_str;
    let _from_value: fn(&toml::Value) -> std::result::Result<ReadableSize, SizeError> =
        size_from_value;
}

/// Returns the number of bytes that a size stands for.
fn bytes_of(size: ReadableSize) -> u64 {
    let ReadableSize(bytes) = size;
    bytes
}

/// Compiles only as long as `raft_base` exports `hash_u64`, `unhash_u64`, `crc32`, `round_up` and `round_down` with
/// these types.
fn utilities() {
    let _hash_u64: fn(u64) -> u64 = hash_u64;
    let _unhash_u64: fn(u64) -> u64 = unhash_u64;
    let _crc32: fn(&[u8]) -> u32 = crc32;
    let _round_up: fn(usize, usize) -> usize = round_up;
    let _round_down: fn(usize, usize) -> usize = round_down;
}

/// Compiles only as long as the module `util` has the utilities too.
fn utilities_by_module() {
    let _hash_u64: fn(u64) -> u64 = util::hash_u64;
    let _crc32: fn(&[u8]) -> u32 = util::crc32;
    let _round_up: fn(usize, usize) -> usize = util::round_up;
    let _kb: fn(u64) -> ReadableSize = util::ReadableSize::kb;
    let _number_of: fn(util::SizeError) -> u8 = number_of;
    let _from_value: fn(&toml::Value) -> std::result::Result<ReadableSize, SizeError> =
        util::size_from_value;
    let _units: [u64; 6] = [
        util::B,
        util::KIB,
        util::MIB,
        util::GIB,
        util::TIB,
        util::PIB,
    ];
}

/// Returns the number of a file, which has 64 bits.
fn number_of_file(seq: FileSeq) -> u64 {
    seq
}

/// Compiles only as long as these have these types: `new` of `FileId`; `other` of `LogQueue`; `new` and `get_signature`
/// of `LogFileContext`; `from_u64`, `to_u64` and `has_log_signing` of `Version`; `from_u8` and `to_u8` of
/// `CompressionType`.
fn files() {
    let _new: fn(LogQueue, FileSeq) -> FileId = FileId::new;
    let _other: fn(LogQueue) -> LogQueue = LogQueue::other;
    let _context: fn(FileId, Version) -> LogFileContext = LogFileContext::new;
    let _signature: fn(&LogFileContext) -> Option<u32> = LogFileContext::get_signature;
    let _from_u64: fn(u64) -> Option<Version> = Version::from_u64;
    let _to_u64: fn(&Version) -> u64 = Version::to_u64;
    let _has_log_signing: fn(&Version) -> bool = Version::has_log_signing;
    let _from_u8: fn(Global, u8) -> Result<CompressionType> = CompressionType::from_u8;
    let _to_u8: fn(CompressionType) -> u8 = CompressionType::to_u8;
}

/// Compiles only as long as types stand under the paths of their modules too.
fn types_by_module() {
    let _entry: entry_index::EntryIndex = EntryIndex::default();
    let _compression: compression_type::CompressionType = CompressionType::None;
    let _error: errors::Error = Error::Full;
    let _no_memory: errors::AllocResult<u8> = Err(AllocError);
    let _refused: message::MessageError = MessageError::Refused(1);
    let _version: pipe_log::Version = Version::default();
}

/// Compiles only as long as `ReactiveBytes::ready` takes `bytes`, and returns `bool`.
fn ready_of_reactive_bytes<T: ReactiveBytes>(bytes: &T) -> bool {
    T::ready(bytes)
}

/// Returns borrowed bytes by the trait that hands out the bytes of a write.
fn as_bytes_of_loans<'a, T: AsSlice<u8>>(
    bytes: &'a mut &'a T,
    context: &LogFileContext,
) -> &'a [u8] {
    <&T as ReactiveBytes>::as_bytes(bytes, context)
}

/// Compiles only as long as `PipeLog::append` takes `pipe`, `queue` and `bytes`, and returns `Result<FileBlockHandle>`.
fn append_of_pipes<P: PipeLog>(
    pipe: &P,
    queue: LogQueue,
    bytes: &mut &Vec<u8>,
) -> Result<FileBlockHandle> {
    P::append::<&Vec<u8>>(pipe, queue, bytes)
}

/// Compiles only as long as `PipeLog::file_at` takes `pipe`, `queue` and `num`, and returns `FileSeq`.
fn file_at_of_pipes<P: PipeLog>(pipe: &P, queue: LogQueue, num: u64) -> FileSeq {
    let den: u64 = 3;
    P::file_at(pipe, queue, num, den)
}

/// Compiles only as long as `PipeLog::read_bytes` takes `pipe`, `alloc` and `handle`, and returns `Result<Vec<u8>>`.
fn read_bytes_of_pipes<P: PipeLog, T: ReactiveBytes>(
    pipe: &P,
    alloc: Global,
    handle: FileBlockHandle,
) -> Result<Vec<u8>> {
    P::read_bytes(pipe, alloc, handle)
}

/// Compiles only as long as `PipeLog::sync` takes `pipe` and `queue`, and returns `Result<()>`.
fn sync_of_pipes<P: PipeLog, T: ReactiveBytes>(pipe: &P, queue: LogQueue) -> Result<()> {
    P::sync(pipe, queue)
}

/// Compiles only as long as `PipeLog::file_span` takes `pipe` and `queue`, and returns `(FileSeq, FileSeq)`.
fn file_span_of_pipes<P: PipeLog, T: ReactiveBytes>(
    pipe: &P,
    queue: LogQueue,
) -> (FileSeq, FileSeq) {
    P::file_span(pipe, queue)
}

/// Compiles only as long as `PipeLog::total_size` takes `pipe` and `queue`, and returns `usize`.
fn total_size_of_pipes<P: PipeLog, T: ReactiveBytes>(pipe: &P, queue: LogQueue) -> usize {
    P::total_size(pipe, queue)
}

/// Compiles only as long as `PipeLog::rotate` takes `pipe` and `queue`, and returns `Result<()>`.
fn rotate_of_pipes<P: PipeLog, T: ReactiveBytes>(pipe: &P, queue: LogQueue) -> Result<()> {
    P::rotate(pipe, queue)
}

/// Compiles only as long as `PipeLog::purge_to` takes `pipe` and `file`, and returns `Result<usize>`.
fn purge_to_of_pipes<P: PipeLog, T: ReactiveBytes>(pipe: &P, file: FileId) -> Result<usize> {
    P::purge_to(pipe, file)
}

/// Compiles only as long as `Factory::new_target` takes `factory` and `alloc`, and returns `Result<T>`.
fn new_target_of_factories<T, F: Factory<T>>(factory: &F, alloc: Global) -> Result<T> {
    F::new_target(factory, alloc)
}

/// Compiles only as long as `Message::write_to_vec` takes `message` and `key`, and returns `std::result::Result<(),
/// MessageError>`.
fn write_to_vec_of_messages<S: Message, M: MessageExt>(
    message: &S,
    key: &mut Vec<u8>,
) -> std::result::Result<(), MessageError> {
    S::write_to_vec(message, key)
}

/// Compiles only as long as `MessageExt::index` takes `entry`, and returns `u64`.
fn index_of_messages<S: Message, M: MessageExt>(entry: &M::Entry) -> u64 {
    M::index(entry)
}

/// Names the fields of an entry and of its place, with their types, and returns the index.
fn fields(entry: EntryIndex) -> u64 {
    let EntryIndex {
        index,
        entries,
        compression_type: CompressionType::None,
        entry_offset,
        entry_len,
    } = entry;
    let _span: (u32, u32) = (entry_offset, entry_len);
    let Some(FileBlockHandle { id, offset, len }) = entries else {
        return index;
    };
    let FileId { queue, seq } = id;
    let _place: (LogQueue, u64, usize, FileSeq) = (queue, offset, len, seq);
    index
}

/// Makes an entry with its place and its file, by the names and types of all fields.
fn entry(number: u64, seq: FileSeq, len: usize, entry_len: u32) -> (EntryIndex, LogFileContext) {
    let id = FileId {
        queue: LogQueue::Append,
        seq,
    };
    let entries = Some(FileBlockHandle {
        id,
        offset: number,
        len,
    });
    let entry = EntryIndex {
        index: number,
        entries,
        compression_type: CompressionType::None,
        entry_offset: 0u32,
        entry_len,
    };
    let version = Version::V2;
    (entry, LogFileContext { id, version })
}

/// Tests that the names above are exported with these types, and that what they give is as it is written here.
#[test]
fn base_is_handed_on(rt: HostRuntime) {
    errors_of_others();
    sizes();
    utilities();
    utilities_by_module();
    files();
    types_by_module();
    let units: [u64; 6] = [B, KIB, MIB, GIB, TIB, PIB];
    assert!(rt; units[5] == 1 << 50 && word_of(&Error::Full) == "full");
    assert!(rt; number_of(SizeError::Kind) == 5 && fields(EntryIndex::default()) == 0);
    assert!(rt; LogQueue::Append as u8 == 0 && LogQueue::Rewrite as u8 == 1);
    assert!(rt; Version::V1 as u8 == 1 && Version::V2 as u8 == 2);
    assert!(rt; bytes_of(ReadableSize(7)) == 7 && fields(entry(7, 1, 3, 2).0) == 7);
    assert!(rt; refused_with(MessageError::Refused(7)) == Some(7));
    assert!(rt; text_of(Error::Full).is_none() && number_of_file(7) == 7);
}
