//! [`LogItem`]: what changes in one region, and its bytes.

ghost use Rattle.std.specs.Prelude.{◌≡◌, ◌≢◌, ◌↔◌, ◌++◌, IsTrue, IfOk, IfErr, OnOk, OnErr};
ghost use Rattle.raft_records.specs.Common.{option_map, Reads, HasNoFront, IsItem, end_of_content, item_of, content_of, entries_item, command_item, pair_item, IsItemFault, IsItemRefusal, placed_item, raised_item, CanRaiseContent};
ghost use Rattle.raft_records.specs.Common.{IsInRange, IsChange, content_made, item_size, at_most_usize, Keeps, item_bytes, content_bytes, IsWritable};

use crate::number::{append_number, append_whole};
use crate::read_batch::items::read_content;
use crate::{Command, EntryIndexes, KeyValue, OpType, ReadContent};
use raft_base::{AllocResult, CompressionType, EntryIndex, Error, FileBlockHandle, Result};
use raft_codec::codec::{self, BytesSlice};
use std::alloc::Global;

/// The type byte of an item with entries.
pub(crate) const TYPE_ENTRIES: u8 = 1;

/// The type byte of an item with a command.
pub(crate) const TYPE_COMMAND: u8 = 2;

/// The type byte of an item with a key value.
pub(crate) const TYPE_KV: u8 = 3;

/// A change of one region.
#[derive(Clone, PartialEq, Eq, Debug, Drop)]
pub struct LogItem {
    /// The id of the region. A group marker has the number of its atomic group here.
    pub raft_group_id: u64,
    /// What changes in the region.
    pub content: LogItemContent,
}

/// What an item changes in its region.
#[derive(Clone, PartialEq, Eq, Debug, Drop)]
pub enum LogItemContent {
    /// New entries of the region's log.
    EntryIndexes(EntryIndexes),
    /// A change of the region's log as a whole.
    Command(Command),
    /// A change of one key.
    Kv(KeyValue),
}

impl LogItem {
    /// Returns an item with new entries of the region `raft_group_id`.
    pub fn new_entry_indexes(raft_group_id: u64, entry_indexes: Vec<EntryIndex>) -> LogItem
        ensures { item_of result ≡ entries_item raft_group_id entry_indexes.items }
    {
        LogItem {
            raft_group_id,
            content: LogItemContent::EntryIndexes(EntryIndexes(entry_indexes)),
        }
    }

    /// Returns an item with a command on the log of the region `raft_group_id`.
    pub fn new_command(raft_group_id: u64, command: Command) -> LogItem
        ensures { item_of result ≡ command_item raft_group_id command }
    {
        LogItem {
            raft_group_id,
            content: LogItemContent::Command(command),
        }
    }

    /// Returns an item that changes `key` of the region `raft_group_id`: `op_type` says whether it puts
    /// `value` or deletes the key. The change isn't in a file yet.
    pub fn new_kv(
        raft_group_id: u64,
        op_type: OpType,
        key: Vec<u8>,
        value: Option<Vec<u8>>,
    ) -> LogItem
        ensures { item_of result
            ≡ pair_item raft_group_id op_type key.items (option_map (λ v. v.items) value) }
    {
        LogItem {
            raft_group_id,
            content: LogItemContent::Kv(KeyValue::new(op_type, key, value)),
        }
    }

    /// Returns a copy of the item.
    ///
    /// # Errors
    ///
    /// `Memory` alone.
    #[tactic(auto, using(crate::proofs::CloneLemmas::item_clone))]
    pub fn clone(&self) -> Result<LogItem>
        ensures ok { IfOk result (λ copy. item_of copy ≡ item_of self.now) }
        ensures memory { IfErr result (λ e. e ≡ Error.Memory) }
    {
        Ok(<LogItem as Clone>::clone(self)?)
    }

    /// Returns the approximate length of the encoded item in bytes, at most `usize::MAX`: that of its
    /// content, and nine for the region id and the type.
    pub(crate) fn approximate_size(&self) -> usize
        ensures { result ≡ at_most_usize (item_size (item_of self.now)) }
    {
        let content = match &self.content {
            LogItemContent::EntryIndexes(entries) => entries.approximate_size(),
            LogItemContent::Command(command) => command.approximate_size(),
            LogItemContent::Kv(kv) => kv.approximate_size(),
        };
        content.saturating_add(8 + 1)
    }

    /// Sets the place of the item's entries to `handle` and their compression type to `compression_type`, or
    /// the file of its key value to that of `handle`. A command isn't changed.
    pub(crate) fn set_place(&mut self, handle: FileBlockHandle, compression_type: CompressionType)
        ensures { item_of self.new ≡ placed_item handle compression_type (item_of self.old) }
    {
        match &mut self.content {
            LogItemContent::EntryIndexes(entries) => entries.set_places(handle, compression_type),
            LogItemContent::Command(_) => {}
            LogItemContent::Kv(kv) => kv.file_id = Some(handle.id),
        }
    }

    /// Adds `by` to the offset of each entry, if the item has entries.
    pub(crate) fn raise_offsets(&mut self, by: u32)
        requires { CanRaiseContent by (content_of self.old.content) }
        ensures { item_of self.new ≡ raised_item by (item_of self.old) }
    {
        match &mut self.content {
            LogItemContent::EntryIndexes(entries) => entries.raise_offsets(by),
            LogItemContent::Command(_) | LogItemContent::Kv(_) => {}
        }
    }

    /// States that the item's numbers fit their types. This is a law: what its body reads serves the prover
    /// alone.
    pub(crate) fn numbers_fit(&self)
        ensures { IsInRange (item_of self.now) }
    {
        let _region = self.raft_group_id;
        match &self.content {
            LogItemContent::EntryIndexes(entries) => {
                let _count = entries.0.len();
            }
            LogItemContent::Command(Command::Clean) => {}
            LogItemContent::Command(Command::Compact { index } | Command::Truncate { index }) => {
                let _index = *index;
            }
            LogItemContent::Kv(kv) => {
                let _key = kv.key.len();
                if let Some(value) = &kv.value {
                    let _value = value.len();
                }
            }
        }
    }

    /// Tests whether the item can be written: the indexes of its entries are consecutive and their bytes lie
    /// one after the other, and a put has a value.
    fn is_writable(&self) -> bool
        ensures { IsTrue result ↔ IsWritable (item_of self.now) }
    {
        match &self.content {
            LogItemContent::EntryIndexes(entries) => entries.is_writable(),
            LogItemContent::Command(_) => true,
            LogItemContent::Kv(kv) => kv.is_writable(),
        }
    }

    /// Appends the bytes of the item to `buf`: the region id in base 128, a byte for the type of the content,
    /// and the content.
    ///
    /// # Errors
    ///
    /// `InvalidArgument` if the content can't be written, as [`EntryIndexes::encode`] and
    /// [`KeyValue::encode`] say; `Memory`. `buf` is unchanged then.
    pub fn encode(&self, buf: &mut Vec<u8>) -> Result<()>
        ensures ok { OnOk result (buf.new.items ≡ buf.old.items ++ item_bytes (item_of self.now)) }
        ensures accepted { OnOk result (IsWritable (item_of self.now)) }
        ensures err { OnErr result (buf.new.items ≡ buf.old.items) }
        ensures fault { IfErr result (IsItemRefusal (item_of self.now)) }
    {
        if !self.is_writable() {
            return Err(Error::invalid_argument(
                *buf.allocator(),
                "an item's entries don't run on, or a put has no value",
            ));
        }
        append_whole!(buf, self.append_to(buf))
    }

    /// Appends the bytes of the item to `buf`, as [`LogItem::encode`] does, without testing whether it can be
    /// written.
    ///
    /// # Errors
    ///
    /// `AllocError` if there is no memory for the bytes. `buf` may have more bytes at its end then, which the
    /// caller cuts off.
    pub(crate) fn append_to(&self, buf: &mut Vec<u8>) -> AllocResult<()>
        ensures ok { OnOk result (buf.new.items ≡ buf.old.items ++ item_bytes (item_of self.now)) }
        ensures err { OnErr result (Keeps buf.old.items buf.new.items) }
    {
        append_number(buf, self.raft_group_id)?;
        self.content.append_to(buf)
    }

    /// Reads an item from the start of `buf`, and moves `buf` past it. Its entries have no place, and its key
    /// value is in no file. `entries_size` is the number of bytes that the entries of the items before it
    /// have together; the bytes of its own entries are added to it.
    ///
    /// # Errors
    ///
    /// `Codec` if the bytes end early or a number is malformed; `Io` of the kind `UnexpectedEof` if they end
    /// before the type; `Corruption` for an unknown type, or for content that [`EntryIndexes::decode`],
    /// [`Command::decode`] or [`KeyValue::decode`] refuses so; `Memory`. `buf` and `entries_size` are
    /// unchanged then.
    pub fn decode(
        alloc: Global,
        buf: &mut BytesSlice<'_>,
        entries_size: &mut u32,
    ) -> Result<LogItem>
        ensures ok { IfOk result (λ item.
            Reads (IsItem entries_size.old) buf.old.now buf.new.now (item_of item)) }
        ensures size { IfOk result (λ item.
            entries_size.new ≡ end_of_content entries_size.old (content_of item.content)) }
        ensures err { OnErr result (buf.new.now ≡ buf.old.now) }
        ensures size_err { OnErr result (entries_size.new ≡ entries_size.old) }
        ensures refused { IfErr result (λ e. e ≢ Error.Memory →
            HasNoFront (IsItem entries_size.old) buf.old.now) }
        ensures fault { IfErr result (IsItemFault entries_size.old buf.old.now) }
    {
        let (raft_group_id, behind) = codec::parse_var_u64(*buf)?;
        let mut entries: Vec<EntryIndex> = Vec::new(alloc);
        let (read, end, rest) = read_content(alloc, behind, *entries_size, &mut entries)?;
        let content = copy_content_with_entries(alloc, read, entries)?;
        *entries_size = end;
        *buf = rest;
        Ok(LogItem {
            raft_group_id,
            content,
        })
    }
}

impl LogItemContent {
    /// Returns a copy of the content.
    ///
    /// # Errors
    ///
    /// `Memory` alone.
    #[tactic(auto, using(crate::proofs::CloneLemmas::content_clone))]
    pub fn clone(&self) -> Result<LogItemContent>
        ensures ok { IfOk result (λ copy. content_of copy ≡ content_of self.now) }
        ensures memory { IfErr result (λ e. e ≡ Error.Memory) }
    {
        Ok(<LogItemContent as Clone>::clone(self)?)
    }

    /// Appends the byte for the type of the content, and the content, to `buf`, without testing whether it
    /// can be written.
    ///
    /// # Errors
    ///
    /// `AllocError` if there is no memory for the bytes. `buf` may have more bytes at its end then, which the
    /// caller cuts off.
    fn append_to(&self, buf: &mut Vec<u8>) -> AllocResult<()>
        ensures ok { OnOk result (buf.new.items
            ≡ buf.old.items ++ content_bytes (content_of self.now)) }
        ensures err { OnErr result (Keeps buf.old.items buf.new.items) }
    {
        match self {
            LogItemContent::EntryIndexes(entries) => {
                buf.push(TYPE_ENTRIES)?;
                entries.append_to(buf)
            }
            LogItemContent::Command(command) => {
                buf.push(TYPE_COMMAND)?;
                command.append_to(buf)
            }
            LogItemContent::Kv(kv) => {
                buf.push(TYPE_KV)?;
                kv.append_to(buf)
            }
        }
    }
}

/// Returns the content of an item of which `content` was read, with copies of its key and value. If it is
/// entries, they are `entries`, which were read with it.
///
/// # Errors
///
/// `Memory` alone, and only for a change of a key.
fn copy_content_with_entries(
    alloc: Global,
    content: ReadContent<'_>,
    entries: Vec<EntryIndex>,
) -> Result<LogItemContent>
    ensures ok { IfOk result (λ own. content_of own ≡ content_made content.entry entries.items) }
    ensures change { OnErr result (IsChange content.entry) }
    ensures memory { IfErr result (λ e. e ≡ Error.Memory) }
{
    match content {
        ReadContent::Run { .. } => Ok(LogItemContent::EntryIndexes(EntryIndexes(entries))),
        ReadContent::Command(command) => Ok(LogItemContent::Command(command)),
        ReadContent::Put { key, value } => {
            let kv = KeyValue::from_slices(alloc, key, Some(value), None)?;
            Ok(LogItemContent::Kv(kv))
        }
        ReadContent::Delete { key } => {
            let kv = KeyValue::from_slices(alloc, key, None, None)?;
            Ok(LogItemContent::Kv(kv))
        }
    }
}
