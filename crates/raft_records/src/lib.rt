//! What stands in a log file, and how it is written and read.
//!
//! An *item* says what changes in one region: new entries, a command, or a key value. An *item batch* is
//! items with a checksum. A *log batch* is what is written at once: a header, the bytes of its entries (the
//! *entry block*), and an item batch. `docs/FORMAT.md` has the bytes.
#![tactic(auto)]

pub mod atomic_group;
mod checksum;
pub mod command;
pub mod entry_block;
pub mod entry_indexes;
pub mod file_part;
pub(crate) mod header;
pub mod key_value;
pub mod laws;
pub mod log_batch;
pub mod log_item;
pub mod log_item_batch;
mod number;
pub mod print;
pub mod read_batch;

pub use atomic_group::{ATOMIC_GROUP_KEY, AtomicGroupBuilder, AtomicGroupStatus, is_reserved};
pub use command::Command;
pub use entry_block::{entries_block_in, entry_bytes};
pub use entry_indexes::EntryIndexes;
pub use file_part::{FilePart, next_batch, next_in, readable_front};
#[doc(hidden)]
pub use header::lent_entry_block;
pub use key_value::{KeyValue, OpType};
pub use log_batch::LogBatch;
pub use log_item::{LogItem, LogItemContent};
pub use log_item_batch::LogItemBatch;
pub use print::{batch_text, print_batch, write_whole};
pub use raft_base::{
    AllocResult, B, CompressionType, EntryIndex, Error, Factory, FileBlockHandle, FileId, FileSeq,
    GIB, KIB, LogFileContext, LogQueue, MIB, Message, MessageError, MessageExt, PIB, PipeLog,
    ReactiveBytes, ReadableSize, Result, SizeError, TIB, Version, codec, compression_type, crc32,
    entry_index, errors, hash_u64, is_consecutive, message, pipe_log, round_down, round_up,
    size_from_value, unhash_u64, util,
};
pub use read_batch::{ReadBatch, ReadContent, ReadItem};
