//! [`ReadBatch`]: the items of a batch that was read, with keys and values left in the bytes of the file.
//!
//! The offset and the length of an entry in the entry bytes of its batch are its *span*. Entries of
//! consecutive indexes are a *run*.

ghost use Rattle.std.specs.Prelude.{◌≡◌, ◌≢◌, ℕ, ◌+◌, ◌^◌, ◌<◌, ◌≤◌, List, [], length, drop, IfOk, IfErr, IfNone, OnErr, ◌-◌};
ghost use Rattle.raft_records.specs.Common.{option_map, HasNoFront, signature_of, AreDecodedIn, part_of, IsNext, IsNextFault, Tile, end_behind, Item, entries_of_block, FileBlockHandle, IsDecoded, IsItemBatch, IsItemBatchFault, IsReadable};
ghost use Rattle.raft_records.specs.Common.{items_shown, spans_of, uncompressed, AllByRecursion, EntryIndex, IsDecodedIn, item_of, content_of, content_shown, item_shown, spans_taken};

pub(crate) mod items;

use crate::checksum::verify_checksum;
use crate::header::{LOG_BATCH_HEADER_LEN, parse_header};
use crate::read_batch::items::read_items;
use crate::{Command, EntryIndexes, KeyValue, LogItem, LogItemBatch, LogItemContent};
use raft_base::{
    CompressionType, EntryIndex, Error, FileBlockHandle, FileId, LogFileContext, Result,
};
use raft_codec::codec;
use std::alloc::Global;
use std::marker::Model;

/// What an item changes in its region.
#[derive(Drop)]
pub enum ReadContent<'a> {
    /// `count` new entries with consecutive indexes, of which `first` is the lowest. Their spans are the next
    /// `count` ones of the batch, after those of the items before.
    Run { first: u64, count: usize },
    /// A change of the region's log as a whole.
    Command(Command),
    /// The key gets a value.
    Put { key: &'a [u8], value: &'a [u8] },
    /// The key is removed.
    Delete { key: &'a [u8] },
}

/// A change of one region, read in place.
#[derive(Drop)]
pub struct ReadItem<'a> {
    /// The id of the region. A group marker has the number of its atomic group here.
    pub region: u64,
    /// What changes in the region.
    pub content: ReadContent<'a>,
}

/// The items of one batch. Keys and values aren't copied: they are borrowed from the bytes that the batch was
/// read from. All entries of a batch are in one entry block, so each is only a span of it.
///
/// A walk over many batches reads each in place of the one before. So it takes no more memory than the
/// longest of them.
#[derive(Drop)]
pub struct ReadBatch<'a> {
    /// The items, in order.
    items: Vec<ReadItem<'a>>,
    /// The span of each entry: its offset and its length. Those of the first run come first.
    spans: Vec<(u32, u32)>,
    /// The place of the entry block.
    place: FileBlockHandle,
}

impl<'a> Model for ReadBatch<'a> {
    ghost use Rattle.std.specs.Prelude.{List};
    ghost use Rattle.raft_records.specs.Item.{Item};

    ghost Value = { List Item };

    ghost use Rattle.raft_records.specs.ReadBatchModel.{items_in, IsWellFormed};

    ghost view = { items_in };

    ghost invariant = { IsWellFormed };
}

impl<'a> ReadBatch<'a> {
    /// Returns a batch without items, whose place is in the file `id`. It allocates nothing yet.
    pub fn new(alloc: Global, id: FileId) -> ReadBatch<'a>
        ensures { result ≡ [] }
    {
        ReadBatch {
            items: Vec::new(alloc),
            spans: Vec::new(alloc),
            place: FileBlockHandle {
                id,
                offset: 0,
                len: 0,
            },
        }
    }

    /// Reads the log batch at position `at` of `bytes`, in place of the batch that was held. Returns the
    /// position after it, where the next one begins, or `None` at the end of `bytes`; there are no items
    /// then. `bytes` are those of `file` from `offset` on, and must end at offset 2^64 - 1 at most. `at` must
    /// be at most their number. The items are those that [`next_in`](crate::next_in) returns.
    ///
    /// # Errors
    ///
    /// Those of [`next_batch`](crate::next_batch). No items are held then.
    pub fn read_next(
        &mut self,
        file: &LogFileContext,
        offset: u64,
        bytes: &'a [u8],
        at: usize,
    ) -> Result<Option<usize>>
        requires inside { at ≤ length bytes.now }
        requires ends { offset + length bytes.now < 2 ^ 64 }
        ensures ok { IfOk result (λ next. IsNext (part_of file.now offset bytes.now) at
            (option_map (λ end. (self.new, end)) next)) }
        ensures in_file { AreDecodedIn file.now.id self.new }
        ensures none { IfOk result (λ next. IfNone next (self.new ≡ [])) }
        ensures err { OnErr result (self.new ≡ []) }
        ensures some { OnErr result (at < length bytes.now) }
        ensures refused { IfErr result (λ e. e ≢ Error.Memory
            → HasNoFront (λ xs. IsReadable xs (signature_of file.now)) (drop at bytes.now)) }
        ensures fault { IfErr result (IsNextFault (signature_of file.now) (drop at bytes.now)) }
    {
        self.clear();
        if at == bytes.len() {
            return Ok(None);
        }
        let alloc = *self.items.allocator();
        let (_, rest) = bytes.split_at(at);
        let ((items_at, _, len), _) = parse_header(alloc, rest)?;
        if len > rest.len() {
            return Err(Error::Corruption(format!(in alloc;
                "a log batch of {len} bytes is cut short"
            )?));
        }
        let place = FileBlockHandle {
            id: file.id,
            offset: offset + at as u64 + LOG_BATCH_HEADER_LEN as u64,
            len: items_at - LOG_BATCH_HEADER_LEN,
        };
        let (batch, _) = rest.split_at(len);
        let (_, item_bytes) = batch.split_at(items_at);
        self.read_item_batch(item_bytes, place, file)?;
        Ok(Some(at + len))
    }

    /// Removes all items, and keeps their memory for the next batch.
    fn clear(&mut self)
        ensures { self.new ≡ [] }
    {
        self.items.clear();
        self.spans.clear();
    }

    /// Reads an item batch, which all of `bytes` must be, in place of the batch that was held. `place` is
    /// where the entry block of its log batch is, and `context` is the file that its checksum must be signed
    /// for. Returns the bytes between the last item and the checksum; a batch that was written here has none.
    ///
    /// # Errors
    ///
    /// Those of [`LogItemBatch::decode`]. No items are held then.
    pub(crate) fn read_item_batch(
        &mut self,
        bytes: &'a [u8],
        place: FileBlockHandle,
        context: &LogFileContext,
    ) -> Result<&'a [u8]>
        ensures ok { IfOk result (λ rest. IsDecoded bytes.now (signature_of context.now) place
            uncompressed self.new rest.now) }
        ensures in_file { AreDecodedIn place.id self.new }
        ensures err { OnErr result (self.new ≡ []) }
        ensures refused { IfErr result (λ e. e ≢ Error.Memory → (items : List Item) (rest : List ℕ) →
            IsItemBatch bytes.now (signature_of context.now) items rest → ⊥) }
        ensures fault { IfErr result (IsItemBatchFault (signature_of context.now) bytes.now) }
    {
        self.items.clear();
        self.spans.clear();
        self.place = place;
        let alloc = *self.items.allocator();
        let content = verify_checksum(alloc, bytes, context.get_signature())?;
        let (count, behind) = codec::parse_var_u64(content)?;
        match read_items(alloc, behind, count, &mut self.items, &mut self.spans) {
            Ok(rest) => Ok(rest),
            Err(e) => {
                self.items.clear();
                self.spans.clear();
                Err(e)
            }
        }
    }

    /// Returns the place of the entry block, the items, and the span of each entry, those of the first run
    /// first. The entries of a run are consecutive, and all entries and changes of keys are in the file of
    /// the place: nobody needs to test it again.
    #[tactic(auto, using(crate::proofs::ReadBatchLemmas::shown_in_file))]
    pub fn parts(&self) -> (FileBlockHandle, &[ReadItem<'a>], &[(u32, u32)])
        ensures shown { items_shown result.0 result.1.now result.2.now ≡ self.now }
        ensures spans { spans_of result.1.now ≡ length result.2.now }
        ensures in_file { AreDecodedIn result.0.id self.now }
    {
        (self.place, self.items.as_slice(), self.spans.as_slice())
    }

    /// Returns the allocator that the batch was made with.
    pub fn allocator(&self) -> Global {
        *self.items.allocator()
    }

    /// Returns a batch of the same items, with copies of keys and values, and with the places of the entries.
    ///
    /// # Errors
    ///
    /// `Memory` alone.
    pub fn to_batch(&self, alloc: Global) -> Result<LogItemBatch>
        ensures ok { IfOk result (λ batch. batch ≡ self.now) }
        ensures memory { IfErr result (λ e. e ≡ Error.Memory) }
    {
        let mut batch = LogItemBatch::with_capacity(alloc, self.items.len())?;
        let mut spans = self.spans.as_slice();
        for item in &self.items {
            let (own, rest) = spans.split_at(item.span_count());
            let end = end_of_spans(own, batch.entries_size());
            batch.push_item(item.to_item(alloc, self.place, own)?, end)?;
            spans = rest;
        }
        Ok(batch.with_file(self.place.id))
    }
}

/// Returns the offset at which the last of `spans` ends in the entry bytes, or `start` if there are none.
fn end_of_spans(spans: &[(u32, u32)], start: u32) -> u32
    requires { (first : ℕ) × (place : FileBlockHandle) × Tile start
        (entries_of_block first place spans.now) }
    ensures { (first : ℕ) (place : FileBlockHandle) →
        result ≡ end_behind start (entries_of_block first place spans.now) }
{
    match spans.last() {
        Some((offset, len)) => *offset + *len,
        None => start,
    }
}

impl ReadItem<'_> {
    /// Returns how many spans of the batch belong to the item: one for each of its entries.
    #[doc(hidden)]
    pub fn span_count(&self) -> usize
        ensures { result ≡ spans_taken self.now.content }
    {
        match &self.content {
            ReadContent::Run { count, .. } => *count,
            _ => 0,
        }
    }

    /// Returns the item with copies of its key and value. If it is a run, its entries have `spans` in the
    /// entry block at `place`; a key value is in the file of `place`.
    ///
    /// # Errors
    ///
    /// `Memory` alone.
    #[doc(hidden)]
    pub fn to_item(
        &self,
        alloc: Global,
        place: FileBlockHandle,
        spans: &[(u32, u32)],
    ) -> Result<LogItem>
        requires { IsDecodedIn place.id (content_shown place self.now.content spans.now) }
        ensures ok { IfOk result (λ item. item_of item ≡ item_shown place self.now spans.now) }
        ensures memory { IfErr result (λ e. e ≡ Error.Memory) }
    {
        Ok(LogItem {
            raft_group_id: self.region,
            content: copy_content_with_spans(alloc, place, &self.content, spans)?,
        })
    }
}

/// Returns `content` with copies of its key and value. If it is a run, its entries have `spans` in the entry
/// block at `place`; a key value is in the file of `place`.
///
/// # Errors
///
/// `Memory` alone.
fn copy_content_with_spans(
    alloc: Global,
    place: FileBlockHandle,
    content: &ReadContent<'_>,
    spans: &[(u32, u32)],
) -> Result<LogItemContent>
    requires { IsDecodedIn place.id (content_shown place content.now spans.now) }
    ensures ok { IfOk result (λ own. content_of own ≡ content_shown place content.now spans.now) }
    ensures memory { IfErr result (λ e. e ≡ Error.Memory) }
{
    match content {
        ReadContent::Run { first, .. } => {
            let run = entries_from_spans(alloc, *first, place, spans)?;
            Ok(LogItemContent::EntryIndexes(EntryIndexes(run)))
        }
        ReadContent::Command(command) => Ok(LogItemContent::Command(command.clone()?)),
        ReadContent::Put { key, value } => {
            let kv = KeyValue::from_slices(alloc, key, Some(value), Some(place.id))?;
            Ok(LogItemContent::Kv(kv))
        }
        ReadContent::Delete { key } => {
            let kv = KeyValue::from_slices(alloc, key, None, Some(place.id))?;
            Ok(LogItemContent::Kv(kv))
        }
    }
}

/// Returns an entry for each of `spans` in the entry block at `place`. The first has the index `first`, and
/// the indexes rise by one.
///
/// # Errors
///
/// `Memory` alone.
fn entries_from_spans(
    alloc: Global,
    first: u64,
    place: FileBlockHandle,
    spans: &[(u32, u32)],
) -> Result<Vec<EntryIndex>>
    requires { AllByRecursion (λ (e : EntryIndex). e.index < 2 ^ 64 - 1)
        (entries_of_block first place spans.now) }
    ensures ok { IfOk result (λ run. run.items ≡ entries_of_block first place spans.now) }
    ensures memory { IfErr result (λ e. e ≡ Error.Memory) }
{
    let mut run = Vec::with_capacity(alloc, spans.len())?;
    let mut index = first;
    for &(entry_offset, entry_len) in spans {
        run.push_reserved(EntryIndex {
            index,
            entries: Some(place),
            compression_type: CompressionType::None,
            entry_offset,
            entry_len,
        });
        index += 1;
    }
    Ok(run)
}
