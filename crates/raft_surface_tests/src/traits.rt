//! The traits of the public types.
//!
//! Each function pins names or types: it compiles only as long as these are there as it writes them. None is called for
//! its effect, but where the test at the end says so.

use raft_memtable::{
    ContextStage, GlobalStats, Kept, MemTable, MemTableAccessor, MemTableRecoverContext,
    MemTableRecoverContextFactory, ReplayMachine,
};
use raft_records::{
    AtomicGroupBuilder, AtomicGroupStatus, Command, CompressionType, EntryIndex, EntryIndexes,
    Error, Factory, FileBlockHandle, FileId, FilePart, KeyValue, LogBatch, LogFileContext, LogItem,
    LogItemBatch, LogItemContent, LogQueue, Message, MessageError, MessageExt, OpType,
    ReactiveBytes, ReadableSize, SizeError, Version,
};
use serde::{DeserializeOwned, Serialize};
use std::fmt::{Debug, Display};
use std::hash::Hash;

/// Compiles only for a type that implements `Clone`, `Copy`, `PartialEq` and `Debug`.
fn is_copied<T: Clone + Copy + PartialEq + Debug>() {}

/// Compiles only for a type that implements `Eq`.
fn is_equal<T: Eq>() {}

/// Compiles only for a type that implements `Ord`.
fn is_ordered<T: Ord>() {}

/// Compiles only for a type that implements `PartialOrd`.
fn is_compared<T: PartialOrd>() {}

/// Compiles only for a type that implements `Hash`.
fn is_hashed<T: Hash>() {}

/// Compiles only for a type that implements `Display`.
fn is_printed<T: Display>() {}

/// Compiles only for a type that implements `Default`.
fn is_default<T: Default>() {}

/// Compiles only for a type that implements `Debug`.
fn is_debugged<T: Debug>() {}

/// Compiles only for a type that implements `Serialize` and `DeserializeOwned`.
fn is_serialized<T: Serialize + DeserializeOwned>() {}

/// Compiles only for a type that implements `Message`, `Clone` and `PartialEq`.
fn is_message<T: Message + Clone + PartialEq>() {}

/// Compiles only if the entries of every `MessageExt` are messages, and it can be used by several threads.
fn is_message_ext<M: MessageExt>() {
    is_message::<M::Entry>();
    is_sent::<M>();
    is_shared::<M>();
}

/// Compiles only if every factory can be used by several threads.
fn is_factory<T, F: Factory<T>>() {
    is_sent::<F>();
    is_shared::<F>();
}

/// Compiles only for a type that implements `ReactiveBytes`.
fn is_reactive<T: ReactiveBytes>() {}

/// Compiles only for a type that implements `Clone`, `PartialEq`, `Eq` and `Debug`.
fn is_cloned<T: Clone + PartialEq + Eq + Debug>() {}

/// Compiles only for a type that can go to another thread.
fn is_sent<T: Send>() {}

/// Compiles only for a type that several threads can use at once.
fn is_shared<T: Sync>() {}

/// Compiles only for a type that implements `ReplayMachine`.
fn is_machine<T: ReplayMachine>() {}

/// Compiles only as long as plain values, such as file numbers and sizes, can be copied, compared for equality and
/// printed for debugging.
fn plain_types() {
    is_copied::<CompressionType>();
    is_copied::<OpType>();
    is_copied::<EntryIndex>();
    is_copied::<FileBlockHandle>();
    is_copied::<FileId>();
    is_copied::<LogQueue>();
    is_copied::<Version>();
    is_copied::<LogFileContext>();
    is_copied::<ReadableSize>();
    is_copied::<AtomicGroupStatus>();
    is_copied::<MessageError>();
    is_copied::<SizeError>();
    is_copied::<Kept>();
    is_copied::<ContextStage>();
}

/// Compiles only as long as these types have an equality that holds of each value with itself, an order, or a hash.
fn compared_types() {
    is_equal::<CompressionType>();
    is_equal::<OpType>();
    is_equal::<EntryIndex>();
    is_equal::<FileBlockHandle>();
    is_equal::<FileId>();
    is_equal::<LogQueue>();
    is_equal::<Version>();
    is_equal::<ReadableSize>();
    is_ordered::<FileId>();
    is_compared::<ReadableSize>();
    is_hashed::<LogQueue>();
}

/// Compiles only as long as errors, sizes and versions can be printed, and entries, versions and counts have a default.
fn printed_types() {
    is_printed::<Error>();
    is_printed::<raft_base::codec::Error>();
    is_printed::<MessageError>();
    is_printed::<SizeError>();
    is_printed::<ReadableSize>();
    is_printed::<Version>();
    is_default::<EntryIndex>();
    is_default::<Version>();
    is_default::<GlobalStats>();
}

/// Compiles only as long as these types can be printed for debugging, read from settings, handed to a pipe, or made by
/// a factory.
fn debugged_types() {
    is_debugged::<Error>();
    is_debugged::<raft_base::codec::Error>();
    is_debugged::<MessageError>();
    is_debugged::<SizeError>();
    is_debugged::<AtomicGroupBuilder>();
    is_debugged::<FilePart>();
    is_serialized::<ReadableSize>();
    is_serialized::<Version>();
    is_reactive::<LogBatch>();
    is_reactive::<&Vec<u8>>();
    is_factory::<MemTableRecoverContext, MemTableRecoverContextFactory>();
}

/// Compiles only as long as items and batches can be cloned, compared and printed for debugging.
fn types_with_vectors() {
    is_cloned::<Command>();
    is_cloned::<EntryIndexes>();
    is_cloned::<KeyValue>();
    is_cloned::<LogItem>();
    is_cloned::<LogItemContent>();
    is_cloned::<LogItemBatch>();
    is_cloned::<LogBatch>();
}

/// Compiles only as long as tables and contexts can go to another thread, and several threads can use shared tables at
/// once.
fn types_of_threads() {
    is_sent::<MemTable>();
    is_sent::<MemTableAccessor>();
    is_sent::<MemTableRecoverContext>();
    is_machine::<MemTableRecoverContext>();
    is_shared::<raft_recover::SharedAccessor>();
}

/// Tests that the names above are exported with these types, and that what they give is as it is written here.
#[test]
fn types_have_their_traits(_rt: HostRuntime) {
    plain_types();
    compared_types();
    printed_types();
    debugged_types();
    types_with_vectors();
    types_of_threads();
}
