//! [`LogItemBatch`]: items without the bytes of their entries.

ghost use Rattle.std.specs.Prelude.{◌≡◌, ◌≢◌, ℕ, ◌+◌, ◌^◌, ◌<◌, ◌≤◌, length, Option, List, [], ◌∷◌, ◌++◌, map, Some, None, IfOk, IfErr, IfSome, OnOk, OnErr, ◌↔◌, IsTrue};
ghost use Rattle.raft_records.specs.Common.{into_iter_items, into_iter_len, iter_rest, signature_of, IsConsecutive, end_of_content, AreDecodedIn, Item, bare, entries, command, content_of, item_of, entries_item, command_item, pair_item};
ghost use Rattle.raft_records.specs.Common.{AreInBytes, IsInBytes, IsItemBatch, IsDecoded, IsItemBatchFault, checksum_bytes, item_batch_bytes, placed_item, raised_item, with_offsets_from, entry_lengths, entry_bytes_of, FitsBehind};
ghost use Rattle.raft_records.specs.Common.{IsEncoded, no_checksum, FitTogether, first_entry, IsMemoryOrMessage, Keeps, item_batch_size, at_most_usize, HaveSmallNumbers, AreInRange, Put, Del, partial_equiv_from_equiv};

use crate::checksum::{LOG_BATCH_CHECKSUM_LEN, sign_checksum};
use crate::number::append_number;
use crate::{Command, LogItem, LogItemContent, OpType, ReadBatch};
use byteorder::{ByteOrder, LittleEndian};
use raft_base::{
    AllocResult, CompressionType, EntryIndex, Error, FileBlockHandle, FileId, LogFileContext,
    Message, Result,
};
use raft_checksum::crc32;
use raft_codec::codec::BytesSlice;
use std::alloc::Global;
use std::marker::Model;
use std::{mem, slice, vec};

/// Items in order, without the bytes of their entries. The entries of the first item begin at offset 0 of the
/// entry bytes, and those of each later item where those before it end.
#[derive(Debug, Drop)]
pub struct LogItemBatch {
    /// The items, in the order in which they were added.
    items: Vec<LogItem>,
    /// The approximate length of the items in bytes, at most `usize::MAX`.
    item_size: usize,
    /// The number of bytes that the entries of all items have together.
    entries_size: u32,
    /// The CRC-32 of the encoded items; `None` if they have changed since they were encoded, or never were.
    checksum: Option<u32>,
    /// The file in which `decode` gave the items their places; `None` if the items have changed since, or
    /// weren't decoded.
    decoded_in: Option<FileId>,
}

impl Model for LogItemBatch {
    ghost use Rattle.std.specs.Prelude.{List};
    ghost use Rattle.raft_records.specs.Item.{Item};

    ghost Value = { List Item };

    ghost use Rattle.raft_records.specs.ItemBatchModel.{items_in, IsWellFormed};

    ghost view = { items_in };

    ghost invariant = { IsWellFormed };
}

impl LogItemBatch {
    /// Returns a batch without items. It allocates nothing yet.
    pub fn default(alloc: Global) -> LogItemBatch
        ensures { result ≡ [] }
    {
        LogItemBatch {
            items: Vec::new(alloc),
            item_size: 0,
            entries_size: 0,
            checksum: None,
            decoded_in: None,
        }
    }

    /// Returns a batch without items, with room for `cap` items.
    ///
    /// # Errors
    ///
    /// `Memory` alone, and only if `cap` is above 0.
    pub fn with_capacity(alloc: Global, cap: usize) -> Result<LogItemBatch>
        ensures ok { IfOk result (λ batch. batch ≡ []) }
        ensures refused { OnErr result (0 < cap) }
        ensures memory { IfErr result (λ e. e ≡ Error.Memory) }
    {
        Ok(LogItemBatch {
            items: Vec::with_capacity(alloc, cap)?,
            ..LogItemBatch::default(alloc)
        })
    }

    /// Returns the items in the order in which they were added, without a copy.
    pub fn into_items(self) -> Vec<LogItem>
        ensures { map item_of result.items ≡ self }
    {
        let LogItemBatch { items, .. } = self;
        items
    }

    /// Returns an iterator over the items, in the order in which they were added.
    pub fn iter(&self) -> slice::Iter<'_, LogItem>
        ensures { map item_of (iter_rest result) ≡ self.now }
    {
        self.items.iter()
    }

    /// Returns the items in the order in which they were added.
    pub fn as_slice(&self) -> &[LogItem]
        ensures { map item_of result.now ≡ self.now }
    {
        self.items.as_slice()
    }

    /// States that a written batch can be read back. The bytes of its entries lie one after the other, from
    /// item to item. The numbers of its items fit their types. Its bytes hold everything of its items but
    /// places and files, and with their checksum they are an item batch of these items. This is a law: it
    /// computes nothing.
    pub fn is_read_again(&self)
        ensures fit { FitTogether 0 self.now }
        ensures in_range { AreInRange self.now }
        ensures in_bytes { AreInBytes self.now }
        ensures spelled { (signature : Option ℕ) →
            IsItemBatch (item_batch_bytes self.now
            ++ checksum_bytes signature (item_batch_bytes self.now)) signature (map bare self.now) [] }
    {
        let _count = self.items.len();
    }

    /// Returns the file in which [`LogItemBatch::decode`] gave the items their places, if no item was added,
    /// moved or placed since. Then the entries of an item are consecutive, all places are in that file, and a
    /// put has a value: nobody needs to test it again. `None` says nothing of the items. (No clause says when
    /// it comes, nor that a clone returns the same.)
    pub fn decoded_in(&self) -> Option<FileId>
        ensures { IfSome result (λ file. AreDecodedIn file self.now) }
    {
        self.decoded_in
    }

    /// Returns the number of bytes that the entries of all items have together.
    pub fn entries_size(&self) -> u32
        ensures { result ≡ entry_bytes_of self.now }
    {
        self.entries_size
    }

    /// Returns the approximate length of the encoded batch in bytes, at most `usize::MAX`. It is at least the
    /// exact length if all region ids and indexes are below 2^56, and the exact length is too.
    pub fn approximate_size(&self) -> usize
        ensures size { result ≡ at_most_usize (item_batch_size self.now) }
        ensures covers { HaveSmallNumbers self.now → length (item_batch_bytes self.now) < 2 ^ 56 →
            length (item_batch_bytes self.now) + 4 ≤ result }
    {
        self.item_size.saturating_add(8 + LOG_BATCH_CHECKSUM_LEN)
    }

    /// Returns the first entry of the first item with [`LogItemContent::EntryIndexes`], or `None` if there is
    /// no such item or it has no entries.
    pub fn entry_index(&self) -> Option<EntryIndex>
        ensures { result ≡ first_entry self.now }
    {
        for item in &self.items {
            if let LogItemContent::EntryIndexes(entries) = &item.content {
                return entries.0.first().copied();
            }
        }
        None
    }

    /// Adds entries of `region`, whose indexes must be consecutive, as one item. Their offsets are set so
    /// that their bytes follow those of the batch. With them, the entries of the batch must have fewer than
    /// 2^32 bytes ([`LogItemBatch::entries_size`] says how many it has).
    ///
    /// # Errors
    ///
    /// `Memory` alone. The batch is unchanged then, and `entry_indexes` is dropped.
    pub fn add_entry_indexes(
        &mut self,
        region: u64,
        mut entry_indexes: Vec<EntryIndex>,
    ) -> Result<()>
        requires consecutive { IsConsecutive entry_indexes.items }
        requires room { entry_bytes_of self.old + entry_lengths entry_indexes.items < 2 ^ 32 }
        ensures ok { OnOk result (self.new ≡ self.old
            ++ entries_item region
            (with_offsets_from (entry_bytes_of self.old) entry_indexes.items) ∷ []) }
        ensures err { OnErr result (self.new ≡ self.old) }
        ensures memory { IfErr result (λ e. e ≡ Error.Memory) }
    {
        let start = self.entries_size();
        let end = set_offsets(&mut entry_indexes, start);
        Ok(self.push_item(LogItem::new_entry_indexes(region, entry_indexes), end)?)
    }

    /// Adds entries of `region`, whose offsets are set already, as one item. `end` is the offset at which
    /// their bytes end in the entry bytes of the batch.
    ///
    /// # Errors
    ///
    /// `AllocError` if there is no memory for the item. The batch is unchanged then, and `entry_indexes` is
    /// dropped.
    pub(crate) fn add_entries_with_offsets(
        &mut self,
        region: u64,
        entry_indexes: Vec<EntryIndex>,
        end: u32,
    ) -> AllocResult<()>
        requires fits { FitsBehind (entry_bytes_of self.old) (entries entry_indexes.items) }
        requires end { end ≡ end_of_content (entry_bytes_of self.old) (entries entry_indexes.items) }
        ensures ok { OnOk result (self.new ≡ self.old ++ entries_item region entry_indexes.items ∷ []) }
        ensures err { OnErr result (self.new ≡ self.old) }
    {
        self.push_item(LogItem::new_entry_indexes(region, entry_indexes), end)
    }

    /// Adds a command on the log of `region`.
    ///
    /// # Errors
    ///
    /// `Memory` alone. The batch is unchanged then.
    pub fn add_command(&mut self, region: u64, command: Command) -> Result<()>
        ensures ok { OnOk result (self.new ≡ self.old ++ command_item region command ∷ []) }
        ensures err { OnErr result (self.new ≡ self.old) }
        ensures memory { IfErr result (λ e. e ≡ Error.Memory) }
    {
        let entries_size = self.entries_size;
        Ok(self.push_item(LogItem::new_command(region, command), entries_size)?)
    }

    /// Adds the deletion of `key` in `region`.
    ///
    /// # Errors
    ///
    /// `Memory` alone. The batch is unchanged then, and `key` is dropped.
    pub fn delete(&mut self, region: u64, key: Vec<u8>) -> Result<()>
        ensures ok { OnOk result (self.new
            ≡ self.old ++ pair_item region Del key.items None ∷ []) }
        ensures err { OnErr result (self.new ≡ self.old) }
        ensures memory { IfErr result (λ e. e ≡ Error.Memory) }
    {
        let entries_size = self.entries_size();
        let item = LogItem::new_kv(region, OpType::Del, key, None);
        Ok(self.push_item(item, entries_size)?)
    }

    /// Adds a put of `value` under `key` in `region`.
    ///
    /// # Errors
    ///
    /// `Memory` alone. The batch is unchanged then, and `key` and `value` are dropped.
    pub fn put(&mut self, region: u64, key: Vec<u8>, value: Vec<u8>) -> Result<()>
        ensures ok { OnOk result (self.new ≡ self.old
            ++ pair_item region Put key.items (Some value.items) ∷ []) }
        ensures err { OnErr result (self.new ≡ self.old) }
        ensures memory { IfErr result (λ e. e ≡ Error.Memory) }
    {
        let entries_size = self.entries_size();
        let item = LogItem::new_kv(region, OpType::Put, key, Some(value));
        Ok(self.push_item(item, entries_size)?)
    }

    /// Adds a put of the bytes of `message` under `key` in `region`.
    ///
    /// # Errors
    ///
    /// `Message` if the message refuses to be written; `Memory`. The batch is unchanged then, and `key` is
    /// dropped.
    pub fn put_message<S: Message>(&mut self, region: u64, key: Vec<u8>, message: &S) -> Result<()>
        ensures ok { OnOk result (self.new ≡ self.old
            ++ pair_item region Put key.items (Some (S.bytes_of message.now)) ∷ []) }
        ensures err { OnErr result (self.new ≡ self.old) }
        ensures fault { IfErr result (IsMemoryOrMessage (S.refuses message.now)) }
    {
        let mut value = Vec::new(*self.items.allocator());
        message.write_to_vec(&mut value)?;
        self.put(region, key, value)
    }

    /// Moves the items of `rhs` to the end of this batch, and leaves `rhs` empty. The offsets of their
    /// entries are raised, so that their bytes follow those of this batch. Together the entries must have
    /// fewer than 2^32 bytes.
    ///
    /// # Errors
    ///
    /// `Memory` alone, and only if `rhs` has items. Both are unchanged then.
    pub fn merge(&mut self, rhs: &mut LogItemBatch) -> Result<()>
        requires { entry_bytes_of self.old + entry_bytes_of rhs.old < 2 ^ 32 }
        ensures ok { OnOk result (self.new
            ≡ self.old ++ map (raised_item (entry_bytes_of self.old)) rhs.old) }
        ensures emptied { OnOk result (rhs.new ≡ []) }
        ensures err { OnErr result (self.new ≡ self.old) }
        ensures rhs_err { OnErr result (rhs.new ≡ rhs.old) }
        ensures refused { OnErr result (rhs.old ≢ []) }
        ensures memory { IfErr result (λ e. e ≡ Error.Memory) }
    {
        if rhs.items.is_empty() {
            return Ok(());
        }
        self.items.reserve(rhs.items.len())?;
        raise_item_offsets(&mut rhs.items, self.entries_size);
        if self.items.append(&mut rhs.items).is_err() {
            unreachable!()
        }
        self.item_size = self.item_size.saturating_add(rhs.item_size);
        self.entries_size += rhs.entries_size;
        self.checksum = None;
        self.decoded_in = None;
        rhs.item_size = 0;
        rhs.entries_size = 0;
        rhs.checksum = None;
        rhs.decoded_in = None;
        Ok(())
    }

    /// Returns all items, in the order in which they were added, and leaves the batch empty.
    pub fn drain(&mut self) -> vec::IntoIter<LogItem>
        ensures items { map item_of (into_iter_items result) ≡ self.old }
        ensures len { into_iter_len result ≡ length self.old }
        ensures emptied { self.new ≡ [] }
    {
        let alloc = *self.items.allocator();
        let drained = mem::replace(self, LogItemBatch::default(alloc));
        drained.into_items().into_iter()
    }

    /// Sets the place of all entries to `handle` and their compression type to `compression_type`, and the
    /// file of all key values to that of `handle`.
    pub(crate) fn set_places(&mut self, handle: FileBlockHandle, compression_type: CompressionType)
        ensures { self.new ≡ map (placed_item handle compression_type) self.old }
    {
        self.decoded_in = None;
        set_item_places(&mut self.items, handle, compression_type);
    }

    /// Appends the bytes of the batch to `buf`, with four zero bytes in place of the checksum, which
    /// [`LogItemBatch::prepare_write`] sets.
    ///
    /// # Errors
    ///
    /// `Memory` alone. `buf` is unchanged then.
    pub fn encode(&mut self, buf: &mut Vec<u8>) -> Result<()>
        ensures ok { OnOk result (buf.new.items
            ≡ buf.old.items ++ (item_batch_bytes self.old ++ no_checksum)) }
        ensures err { OnErr result (buf.new.items ≡ buf.old.items) }
        ensures same { self.new ≡ self.old }
        ensures memory { IfErr result (λ e. e ≡ Error.Memory) }
    {
        let start = buf.len();
        if let Err(e) = write_items(buf, self.items.as_slice()) {
            buf.truncate(start);
            return Err(e.into());
        }
        let end = buf.len() - LOG_BATCH_CHECKSUM_LEN;
        self.checksum = Some(crc32(&buf[start..end]));
        Ok(())
    }

    /// Writes the checksum, signed for the file of `context`, over the last four bytes of `buf`, which are
    /// all bytes that [`LogItemBatch::encode`] appended for this batch. It may be repeated for other files.
    pub fn prepare_write(&self, buf: &mut [u8], context: &LogFileContext)
        requires { IsEncoded self.now buf.old }
        ensures { buf.new ≡ item_batch_bytes self.now
            ++ checksum_bytes (signature_of context.now) (item_batch_bytes self.now) }
    {
        let end = buf.len() - LOG_BATCH_CHECKSUM_LEN;
        let checksum = match self.checksum {
            Some(checksum) => checksum,
            None => crc32(&buf[..end]),
        };
        LittleEndian::write_u32(
            &mut buf[end..],
            sign_checksum(checksum, context.get_signature()),
        );
    }

    /// Reads an item batch, which all of `buf` must be, in the file of `context`. Each entry gets the place
    /// `entries` and the compression type, and each key value the file of `entries`. `buf` is set to the
    /// bytes between the last item and the checksum, which may be any. The entries of an item are
    /// consecutive, and a put has a value, so that nobody needs to test it again
    /// ([`LogItemBatch::decoded_in`]).
    ///
    /// # Errors
    ///
    /// `Corruption` if there are four bytes or fewer, or the checksum is wrong; `Codec` if the count of items
    /// is malformed; the errors of [`LogItem::decode`] for an item; `Memory`. `buf` is unchanged then.
    pub fn decode(
        alloc: Global,
        buf: &mut BytesSlice<'_>,
        entries: FileBlockHandle,
        compression_type: CompressionType,
        context: &LogFileContext,
    ) -> Result<LogItemBatch>
        ensures ok { IfOk result (λ batch.
            IsDecoded buf.old.now (signature_of context.now) entries compression_type batch
            buf.new.now) }
        ensures in_file { IfOk result (AreDecodedIn entries.id) }
        ensures err { OnErr result (buf.new.now ≡ buf.old.now) }
        ensures refused { IfErr result (λ e. e ≢ Error.Memory →
            (items : List Item) (rest : List ℕ) →
            IsItemBatch buf.old.now (signature_of context.now) items rest → ⊥) }
        ensures fault { IfErr result (IsItemBatchFault (signature_of context.now) buf.old.now) }
    {
        // All batches are read in this compression type: there is no other.
        let CompressionType::None = compression_type;
        let mut read = ReadBatch::new(alloc, entries.id);
        let rest = read.read_item_batch(*buf, entries, context)?;
        let batch = read.to_batch(alloc)?;
        *buf = rest;
        Ok(batch)
    }

    /// Returns the batch with the note that its items were decoded in `file`, which
    /// [`LogItemBatch::decoded_in`] returns.
    #[inline(always)]
    pub(crate) fn with_file(mut self, file: FileId) -> LogItemBatch
        requires { AreDecodedIn file self }
        ensures { result ≡ self }
    {
        self.decoded_in = Some(file);
        self
    }

    /// Adds `item`. `entries_size` is the number of bytes that all entries have together once it is added.
    ///
    /// # Errors
    ///
    /// `AllocError` if there is no memory for the item. The batch is unchanged then, and `item` is dropped.
    #[inline(always)]
    pub(crate) fn push_item(&mut self, item: LogItem, entries_size: u32) -> AllocResult<()>
        requires fits { FitsBehind (entry_bytes_of self.old) (content_of item.content) }
        requires in_bytes { IsInBytes (content_of item.content) }
        requires end { entries_size
            ≡ end_of_content (entry_bytes_of self.old) (content_of item.content) }
        ensures ok { OnOk result (self.new ≡ self.old ++ item_of item ∷ []) }
        ensures err { OnErr result (self.new ≡ self.old) }
    {
        item.numbers_fit();
        let size = item.approximate_size();
        self.items.push(item)?;
        self.item_size = self.item_size.saturating_add(size);
        self.entries_size = entries_size;
        self.checksum = None;
        self.decoded_in = None;
        Ok(())
    }

    /// Returns a copy of the batch.
    ///
    /// # Errors
    ///
    /// `Memory` alone.
    pub fn clone(&self) -> Result<LogItemBatch>
        ensures ok { IfOk result (λ copy. copy ≡ self.now) }
        ensures memory { IfErr result (λ e. e ≡ Error.Memory) }
    {
        Ok(<LogItemBatch as Clone>::clone(self)?)
    }
}

impl PartialEq for LogItemBatch {
    ghost use Rattle.raft_records.specs.Same.{same_items};
    ghost use Rattle.raft_records.specs.SameLaws.{same_items_is_equivalence};

    ghost eq = { same_items };

    ghost laws = { partial_equiv_from_equiv same_items_is_equivalence };

    /// Tests whether both batches have the same items, in the same order.
    fn eq(&self, other: &LogItemBatch) -> bool
        ensures tested { result ≡ same_items self.now other.now }
        ensures exact { IsTrue result ↔ (self.now ≡ other.now) }
    {
        self.items.as_slice() == other.items.as_slice()
    }
}

impl Eq for LogItemBatch {
    ghost use Rattle.raft_records.specs.SameLaws.{same_items_is_equivalence};

    ghost laws = { same_items_is_equivalence };
}

impl Clone for LogItemBatch {
    ghost is_clone = { λ batch copy. copy ≡ batch };

    /// Returns a copy of the batch.
    ///
    /// # Errors
    ///
    /// `AllocError` if there is no memory for it.
    fn clone(&self) -> AllocResult<LogItemBatch> {
        let items = self.items.clone()?;
        Ok(LogItemBatch { items, ..*self })
    }
}

/// Appends the bytes of an item batch to `buf`: the number of `items` in base 128, the items, and four zero
/// bytes in place of the checksum.
///
/// # Errors
///
/// `AllocError` if there is no memory for them. `buf` may have more bytes at its end then, which the caller
/// cuts off.
fn write_items(buf: &mut Vec<u8>, items: &[LogItem]) -> AllocResult<()>
    ensures ok { OnOk result
        (buf.new.items
        ≡ buf.old.items ++ (item_batch_bytes (map item_of items.now) ++ no_checksum)) }
    ensures err { OnErr result (Keeps buf.old.items buf.new.items) }
{
    append_number(buf, items.len() as u64)?;
    for item in items {
        item.append_to(buf)?;
    }
    buf.extend_from_slice(&[0; LOG_BATCH_CHECKSUM_LEN])?;
    Ok(())
}

/// Sets the place of all entries of `items` to `handle` and their compression type to `compression_type`, and
/// the file of all key values to that of `handle`.
fn set_item_places(
    items: &mut Vec<LogItem>,
    handle: FileBlockHandle,
    compression_type: CompressionType,
)
    ensures { map item_of items.new.items
        ≡ map (placed_item handle compression_type) (map item_of items.old.items) }
{
    for item in items.iter_mut() {
        item.set_place(handle, compression_type);
    }
}

/// Sets the offsets of `entries` so that their bytes lie one after the other from offset `start` on, and
/// returns the offset at which they end.
fn set_offsets(entries: &mut Vec<EntryIndex>, start: u32) -> u32
    requires { start + entry_lengths entries.old.items < 2 ^ 32 }
    ensures offsets { entries.new.items ≡ with_offsets_from start entries.old.items }
    ensures end { result ≡ start + entry_lengths entries.old.items }
{
    let mut offset = start;
    for entry in entries.iter_mut() {
        entry.entry_offset = offset;
        offset += entry.entry_len;
    }
    offset
}

/// Adds `by` to the offset of each entry of all `items`.
fn raise_item_offsets(items: &mut Vec<LogItem>, by: u32)
    requires fit { FitTogether 0 (map item_of items.old.items) }
    requires room { by + entry_bytes_of (map item_of items.old.items) < 2 ^ 32 }
    ensures { map item_of items.new.items ≡ map (raised_item by) (map item_of items.old.items) }
{
    for item in items.iter_mut() {
        item.raise_offsets(by);
    }
}
