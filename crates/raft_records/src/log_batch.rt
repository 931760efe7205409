//! [`LogBatch`]: items with the bytes of their entries, as they are written at once.

ghost use Rattle.std.specs.Prelude.{◌≡◌, ◌≢◌, ℕ, ◌+◌, ◌-◌, ◌^◌, ◌<◌, ◌≤◌, ◌↔◌, List, [], length, map, IfOk, IfErr, OnOk, OnErr, IsTrue, Option, Some, None};
ghost use Rattle.raft_records.specs.Common.{Reads, HasNoFront, signature_of, into_iter_items, into_iter_len, bare, command_item, item_of, pair_item, AreInBytes, is_open, encoded, sealed, IsSealedStage, empty_batch, with_item, IsBatchOf};
ghost use Rattle.raft_records.specs.Common.{encoded_length, log_batch_bytes, IsLogBatch, approximate_length, entry_place, HaveSmallNumbers, AreInRange, IsHeader, IsHeaderFault, IsEntryBlockOf, IsEntryBlockFault, Put, Del, reserved_key};
ghost use Rattle.raft_records.specs.Common.{IsKeyRefusal, IsMessageRefusal, placed_item, stage_number, AreEqual, partial_equiv_from_equiv, uncompressed};

use crate::checksum::LOG_BATCH_CHECKSUM_LEN;
use crate::header::{
    LOG_BATCH_HEADER_LEN, complete_batch, item_batch_offset, lent_entry_block, parse_header,
    reserve_header, seal_batch,
};
use crate::laws::log_batches_are_read_again;
use crate::{Command, LogItem, LogItemBatch, is_reserved};
use raft_base::{
    AllocResult, CompressionType, Error, FileBlockHandle, LogFileContext, Message, ReactiveBytes,
    Result,
};
use raft_codec::codec::BytesSlice;
use std::alloc::Global;
use std::marker::Model;
use std::vec;

mod entries;

/// The most bytes that the entries of a batch may have together.
const MAX_LOG_ENTRIES_SIZE_PER_BATCH: u64 = (1 << 31) - 1;

/// The most bytes that the buffer of an emptied batch keeps allocated.
const MAX_LOG_BATCH_BUFFER_CAP: usize = 8 * 1024 * 1024;

/// The stage of a batch, which says what its buffer holds.
#[derive(Clone, Copy, PartialEq, Eq, Debug)]
enum BufState {
    /// 16 bytes of room for the header, and the entry bytes after them; the buffer may be empty if there are
    /// none.
    Open,
    /// The bytes of the batch, in which the checksum of the items isn't set yet. The buffer is empty if there
    /// are no items.
    Encoded,
    /// The bytes of the batch, with a checksum that is combined with this signature, or not signed.
    Sealed(Option<u32>),
}

impl BufState {
    ghost use Rattle.raft_records.specs.LogBatchModel.{stage_of};

    /// Tests whether both stages are open, both encoded, or both sealed. Signatures aren't compared.
    fn is_same_stage(self, other: BufState) -> bool
        ensures { IsTrue result ↔ (stage_number (stage_of self) ≡ stage_number (stage_of other)) }
    {
        match (self, other) {
            (BufState::Open, BufState::Open)
            | (BufState::Encoded, BufState::Encoded)
            | (BufState::Sealed(_), BufState::Sealed(_)) => true,
            _ => false,
        }
    }
}

/// Items with the bytes of their entries, to be written at once.
///
/// A batch has three stages. It is *open* at first: items are added. `finish_populate` makes its bytes: it is
/// *encoded*, and takes no more items. `prepare_write` signs the bytes for a file: it is *sealed*, and can be
/// written. `drain` takes the items out, and opens it again.
#[derive(Debug, Drop)]
pub struct LogBatch {
    /// The items.
    item_batch: LogItemBatch,
    /// The stage of the batch.
    state: BufState,
    /// What the stage says: the entry bytes, or the bytes of the whole batch.
    buf: Vec<u8>,
}

impl Model for LogBatch {
    ghost use Rattle.raft_records.specs.LogBatch.{Batch};

    ghost Value = { Batch };

    ghost use Rattle.raft_records.specs.LogBatchModel.{batch_in, IsWellHeld};

    ghost view = { batch_in };

    ghost invariant = { IsWellHeld };
}

impl LogBatch {
    /// Returns an open batch without items. It allocates nothing yet.
    pub fn default(alloc: Global) -> LogBatch
        ensures { result ≡ empty_batch }
    {
        LogBatch {
            item_batch: LogItemBatch::default(alloc),
            state: BufState::Open,
            buf: Vec::new(alloc),
        }
    }

    /// Returns an open batch without items, with room for `cap` items.
    ///
    /// # Errors
    ///
    /// `Memory` alone, and only if `cap` is above 0.
    pub fn with_capacity(alloc: Global, cap: usize) -> Result<LogBatch>
        ensures ok { IfOk result (λ batch. batch ≡ empty_batch) }
        ensures refused { OnErr result (0 < cap) }
        ensures memory { IfErr result (λ e. e ≡ Error.Memory) }
    {
        Ok(LogBatch {
            item_batch: LogItemBatch::with_capacity(alloc, cap)?,
            state: BufState::Open,
            buf: Vec::new(alloc),
        })
    }

    /// Returns the allocator that the batch was made with.
    pub(crate) fn allocator(&self) -> Global {
        *self.buf.allocator()
    }

    /// Tests whether the batch has no items.
    pub fn is_empty(&self) -> bool
        ensures { IsTrue result ↔ (self.now.items ≡ []) }
    {
        self.item_batch.iter().as_slice().is_empty()
    }

    /// Tests whether items may be added: until `finish_populate` makes the bytes, and again after `drain`.
    pub fn is_open(&self) -> bool
        ensures { IsTrue result ↔ (self.now.stage ≡ is_open) }
    {
        matches!(self.state, BufState::Open)
    }

    /// Tests whether the bytes of the batch can be written: they are signed for a file, or finished for a
    /// file of version 1, which has no signatures.
    pub fn is_sealed(&self) -> bool
        ensures { IsTrue result ↔ IsSealedStage self.now.stage }
    {
        matches!(self.state, BufState::Sealed(_))
    }

    /// Returns the approximate length of the batch in bytes, at most `usize::MAX`. It is 0 without items, and
    /// exact once the bytes are made. In an open batch it is at least the exact length, if all region ids and
    /// indexes are below 2^56 and the batch can be encoded.
    pub fn approximate_size(&self) -> usize
        ensures size { result
            ≡ approximate_length self.now.stage self.now.items self.now.entry_bytes }
        ensures covers { HaveSmallNumbers self.now.items →
            encoded_length self.now.items self.now.entry_bytes < 2 ^ 56 →
            encoded_length self.now.items self.now.entry_bytes ≤ result }
    {
        if self.is_empty() {
            return 0;
        }
        match self.state {
            BufState::Open => {
                let entry_bytes = self.item_batch.entries_size() as usize;
                let items = self.item_batch.approximate_size();
                items.saturating_add(LOG_BATCH_HEADER_LEN + entry_bytes + LOG_BATCH_CHECKSUM_LEN)
            }
            BufState::Encoded | BufState::Sealed(_) => self.buf.len(),
        }
    }

    /// Returns the items in the order in which they were added.
    pub fn items(&self) -> &[LogItem]
        ensures { map item_of result.now ≡ self.now.items }
    {
        self.item_batch.as_slice()
    }

    /// Returns all items, in the order in which they were added, and leaves the batch open and empty. Up to 8
    /// MiB of its buffer stay allocated for later items.
    pub fn drain(&mut self) -> vec::IntoIter<LogItem>
        ensures items { map item_of (into_iter_items result) ≡ self.old.items }
        ensures len { into_iter_len result ≡ length self.old.items }
        ensures emptied { self.new ≡ empty_batch }
    {
        self.buf.clear();
        self.buf.shrink_to(MAX_LOG_BATCH_BUFFER_CAP);
        self.state = BufState::Open;
        self.item_batch.drain()
    }

    /// Adds a command on the log of `region`. The batch must be open.
    ///
    /// # Errors
    ///
    /// `Memory` alone. The batch is unchanged then.
    pub fn add_command(&mut self, region: u64, command: Command) -> Result<()>
        requires { self.old.stage ≡ is_open }
        ensures ok { OnOk result (self.new ≡ with_item self.old (command_item region command)) }
        ensures err { OnErr result (self.new ≡ self.old) }
        ensures memory { IfErr result (λ e. e ≡ Error.Memory) }
    {
        self.item_batch.add_command(region, command)
    }

    /// Makes the bytes of an open batch, which is encoded then and takes no more items, and returns their
    /// number: 0 without items.
    ///
    /// # Errors
    ///
    /// `Full` if there would be 2^56 bytes or more; `Memory`. The batch is unchanged then, and still open.
    pub fn finish_populate(&mut self) -> Result<usize>
        requires { self.old.stage ≡ is_open }
        ensures ok { OnOk result (self.new ≡ record self.old { stage = encoded }) }
        ensures len { IfOk result (λ len. len
            ≡ encoded_length self.old.items self.old.entry_bytes) }
        ensures accepted { OnOk result (encoded_length self.old.items self.old.entry_bytes
            < 2 ^ 56) }
        ensures err { OnErr result (self.new ≡ self.old) }
        ensures refused { OnErr result (self.old.items ≢ []) }
        ensures fault { IfErr result (λ e. e ≢ Error.Memory →
            (e ≡ Error.Full) × (2 ^ 56 ≤ encoded_length self.old.items self.old.entry_bytes)) }
    {
        if self.is_empty() {
            self.buf.clear();
            self.state = BufState::Encoded;
            return Ok(0);
        }
        reserve_header(&mut self.buf)?;
        let start = self.buf.len();
        if let Err(e) = complete_batch(&mut self.buf, &mut self.item_batch) {
            self.buf.truncate(start);
            return Err(e);
        }
        self.state = BufState::Encoded;
        Ok(self.buf.len())
    }

    /// Signs the bytes of the batch for the file of `context`; the batch is sealed then. It must not be open.
    /// A sealed batch may be signed again for another file. It allocates nothing.
    #[tactic(auto, using(crate::proofs::StageLemmas::held_unsigned, crate::proofs::StageLemmas::made_of))]
    pub fn prepare_write(&mut self, context: &LogFileContext)
        requires { self.old.stage ≢ is_open }
        ensures { self.new ≡ record self.old { stage = sealed (signature_of context.now) } }
    {
        seal_batch(&self.item_batch, &mut self.buf, context);
        self.state = BufState::Sealed(context.get_signature());
    }

    /// Returns the bytes of a sealed batch, as they are to be written to the file that it was sealed for. A
    /// batch without items has none.
    pub fn encoded_bytes(&self) -> &[u8]
        requires { IsSealedStage self.now.stage }
        ensures bytes { (signature : Option ℕ) → self.now.stage ≡ sealed signature →
            result.now ≡ log_batch_bytes signature self.now.items self.now.entry_bytes }
        ensures read_again { (signature : Option ℕ) → self.now.stage ≡ sealed signature →
            self.now.items ≢ [] →
            IsLogBatch result.now signature (map bare self.now.items) self.now.entry_bytes }
    {
        self.is_read_again();
        self.buf.as_slice()
    }

    /// States that a written batch can be read back. The bytes of its entries lie one after the other in its
    /// entry bytes, of which there are at most 2^31 - 1. The numbers of its items fit their types. Its bytes
    /// hold everything of its items but places and files. Once made, they are fewer than 2^56, and those of a
    /// batch with items are a log batch of these items and entry bytes. This is a law: it computes nothing.
    #[tactic(auto, using(crate::proofs::StageLemmas::encoded_short))]
    pub fn is_read_again(&self)
        ensures tiled { IsBatchOf self.now.items self.now.entry_bytes }
        ensures in_range { AreInRange self.now.items }
        ensures in_bytes { AreInBytes self.now.items }
        ensures short { self.now.stage ≢ is_open →
            encoded_length self.now.items self.now.entry_bytes < 2 ^ 56 }
        ensures spelled { (signature : Option ℕ) → self.now.items ≢ [] →
            encoded_length self.now.items self.now.entry_bytes < 2 ^ 56 →
            IsLogBatch (log_batch_bytes signature self.now.items self.now.entry_bytes) signature
            (map bare self.now.items) self.now.entry_bytes }
    {
        self.item_batch.is_read_again();
        log_batches_are_read_again();
    }

    /// Reads the header of a log batch from the start of `buf`, and moves `buf` past it. Returns the offset
    /// of the item batch from the start of the batch, the compression type of the entry bytes, and the length
    /// of the whole batch in bytes. `alloc` is only for the text of an error.
    ///
    /// # Errors
    ///
    /// `Corruption` if `buf` doesn't begin with a header; `Memory` if there is none for its text. `buf` is
    /// unchanged then.
    pub fn decode_header(
        alloc: Global,
        buf: &mut BytesSlice<'_>,
    ) -> Result<(usize, CompressionType, usize)>
        ensures ok { IfOk result (Reads IsHeader buf.old.now buf.new.now) }
        ensures err { OnErr result (buf.new.now ≡ buf.old.now) }
        ensures refused { OnErr result (HasNoFront IsHeader buf.old.now) }
        ensures fault { IfErr result (IsHeaderFault buf.old.now) }
    {
        let (header, rest) = parse_header(alloc, *buf)?;
        *buf = rest;
        Ok(header)
    }

    /// Returns a copy of the entry bytes of the entry block at the start of `buf`, without their checksum,
    /// which is checked. `place.len` is the length of the block with its checksum; the rest of `place` isn't
    /// used. The result is empty if that length is 0.
    ///
    /// # Errors
    ///
    /// `Corruption` if `buf` is shorter than the block, or the checksum is wrong; `Memory`.
    pub fn decode_entries_block(
        alloc: Global,
        buf: &[u8],
        place: FileBlockHandle,
        compression_type: CompressionType,
    ) -> Result<Vec<u8>>
        ensures ok { IfOk result (λ entries. IsEntryBlockOf place.len buf.now entries.items) }
        ensures some { OnErr result (0 < place.len) }
        ensures refused { IfErr result (λ e. e ≢ Error.Memory →
            (entries : List ℕ) → IsEntryBlockOf place.len buf.now entries → ⊥) }
        ensures fault { IfErr result (IsEntryBlockFault place.len buf.now) }
    {
        let content = lent_entry_block(alloc, buf, place.len)?;
        if content.is_empty() {
            return Ok(Vec::new(alloc));
        }
        match compression_type {
            CompressionType::None => Ok(Vec::from_slice(alloc, content)?),
        }
    }

    /// Adds the deletion of `key` in `region`. The batch must be open.
    ///
    /// # Errors
    ///
    /// `Memory` alone. The batch is unchanged then, and `key` is dropped.
    pub fn delete(&mut self, region: u64, key: Vec<u8>) -> Result<()>
        requires { self.old.stage ≡ is_open }
        ensures ok { OnOk result (self.new
            ≡ with_item self.old (pair_item region Del key.items None)) }
        ensures err { OnErr result (self.new ≡ self.old) }
        ensures memory { IfErr result (λ e. e ≡ Error.Memory) }
    {
        self.item_batch.delete(region, key)
    }

    /// Adds a put of `value` under `key` in `region`. The batch must be open.
    ///
    /// # Errors
    ///
    /// `InvalidArgument` for the key that is reserved for group markers ([`is_reserved`]); `Memory`. The
    /// batch is unchanged then, and `key` and `value` are dropped.
    pub fn put(&mut self, region: u64, key: Vec<u8>, value: Vec<u8>) -> Result<()>
        requires { self.old.stage ≡ is_open }
        ensures ok { OnOk result (self.new
            ≡ with_item self.old (pair_item region Put key.items (Some value.items))) }
        ensures accepted { OnOk result (key.items ≢ reserved_key) }
        ensures err { OnErr result (self.new ≡ self.old) }
        ensures fault { IfErr result (IsKeyRefusal key.items) }
    {
        refuse_reserved_key(&key)?;
        self.put_unchecked(region, key, value)
    }

    /// Adds a put of the bytes of `message` under `key` in `region`. The batch must be open.
    ///
    /// # Errors
    ///
    /// `InvalidArgument` for the key that is reserved for group markers ([`is_reserved`]); `Message` if the
    /// message refuses to be written; `Memory`. The batch is unchanged then, and `key` is dropped.
    pub fn put_message<S: Message>(&mut self, region: u64, key: Vec<u8>, message: &S) -> Result<()>
        requires { self.old.stage ≡ is_open }
        ensures ok { OnOk result (self.new ≡ with_item self.old
            (pair_item region Put key.items (Some (S.bytes_of message.now)))) }
        ensures accepted { OnOk result (key.items ≢ reserved_key) }
        ensures err { OnErr result (self.new ≡ self.old) }
        ensures fault { IfErr result (IsMessageRefusal (S.refuses message.now) key.items) }
    {
        refuse_reserved_key(&key)?;
        self.item_batch.put_message(region, key, message)
    }

    /// Adds a put of `value` under `key` in `region`, which may be the reserved key of group markers. The
    /// batch must be open.
    ///
    /// # Errors
    ///
    /// `Memory` alone. The batch is unchanged then, and `key` and `value` are dropped.
    pub(crate) fn put_unchecked(&mut self, region: u64, key: Vec<u8>, value: Vec<u8>) -> Result<()>
        requires { self.old.stage ≡ is_open }
        ensures ok { OnOk result (self.new
            ≡ with_item self.old (pair_item region Put key.items (Some value.items))) }
        ensures err { OnErr result (self.new ≡ self.old) }
        ensures memory { IfErr result (λ e. e ≡ Error.Memory) }
    {
        self.item_batch.put(region, key, value)
    }

    /// Sets the places of the items of a sealed batch, once its bytes were written to `handle`. Each entry
    /// gets the place of the entry block, which begins 16 bytes after the start of the batch, and has length
    /// 0 if there are no entry bytes. Each key value gets the file of `handle`, whose offset must be at most
    /// 2^64 - 17. The bytes of the batch stay the same, and it allocates nothing.
    pub fn finish_write(&mut self, handle: FileBlockHandle)
        requires sealed { IsSealedStage self.old.stage }
        requires offset { handle.offset ≤ 2 ^ 64 - 17 }
        ensures placed { self.new ≡ record self.old {
          items = map (placed_item (entry_place handle self.old.entry_bytes) uncompressed)
              self.old.items;
        } }
        ensures bytes { (signature : Option ℕ) →
            log_batch_bytes signature self.new.items self.new.entry_bytes
            ≡ log_batch_bytes signature self.old.items self.old.entry_bytes }
    {
        let entry_place = FileBlockHandle {
            id: handle.id,
            offset: handle.offset + LOG_BATCH_HEADER_LEN as u64,
            len: item_batch_offset(self.item_batch.entries_size()) - LOG_BATCH_HEADER_LEN,
        };
        self.item_batch
            .set_places(entry_place, CompressionType::None);
    }

    /// Returns a copy of the batch: the same items and entry bytes, at the same stage.
    ///
    /// # Errors
    ///
    /// `Memory` alone.
    pub fn clone(&self) -> Result<LogBatch>
        ensures ok { IfOk result (λ copy. copy ≡ self.now) }
        ensures memory { IfErr result (λ e. e ≡ Error.Memory) }
    {
        Ok(<LogBatch as Clone>::clone(self)?)
    }

    /// Returns the entry bytes of the batch, without their checksum, at any stage.
    fn entry_bytes(&self) -> &[u8]
        ensures { result.now ≡ self.now.entry_bytes }
    {
        let end = LOG_BATCH_HEADER_LEN + self.item_batch.entries_size() as usize;
        if self.buf.len() < end {
            &[]
        } else {
            &self.buf[LOG_BATCH_HEADER_LEN..end]
        }
    }
}

/// Checks that `key` isn't the one that is reserved for group markers.
///
/// # Errors
///
/// `InvalidArgument` if it is; `Memory` if there is none for its text.
fn refuse_reserved_key(key: &Vec<u8>) -> Result<()>
    ensures accepted { OnOk result (key.now.items ≢ reserved_key) }
    ensures fault { IfErr result (IsKeyRefusal key.now.items) }
{
    if is_reserved(key.as_slice()) {
        return Err(Error::InvalidArgument(format!(in *key.allocator();
            "the key {key:?} is kept for group markers"
        )?));
    }
    Ok(())
}

/// Lets a [`PipeLog`](raft_base::PipeLog) write a batch: it is ready once it is no longer open, and its bytes
/// are signed for the file that they are written to.
impl ReactiveBytes for LogBatch {
    ghost is_ready = { λ batch. batch.stage ≢ is_open };

    ghost bytes_in = { λ batch context.
        log_batch_bytes (signature_of context) batch.items batch.entry_bytes };

    /// Tests whether the batch is no longer open, so that its bytes can be asked for.
    fn ready(&self) -> bool {
        !self.is_open()
    }

    /// Signs the bytes of the batch for the file of `ctx`, and returns them. The batch must not be open, and
    /// is sealed then.
    fn as_bytes(&mut self, ctx: &LogFileContext) -> &[u8] {
        self.prepare_write(ctx);
        self.encoded_bytes()
    }
}

impl PartialEq for LogBatch {
    ghost use Rattle.raft_records.specs.Same.{same_batch};
    ghost use Rattle.raft_records.specs.SameLaws.{same_batch_is_equivalence};

    ghost eq = { same_batch };

    ghost laws = { partial_equiv_from_equiv same_batch_is_equivalence };

    /// Tests whether both batches have the same items and entry bytes and are at the same stage: both open,
    /// both encoded, or both sealed, though perhaps for different files.
    fn eq(&self, other: &LogBatch) -> bool
        ensures tested { result ≡ same_batch self.now other.now }
        ensures exact { IsTrue result ↔ AreEqual self.now other.now }
    {
        self.state.is_same_stage(other.state)
            && self.item_batch == other.item_batch
            && self.entry_bytes() == other.entry_bytes()
    }
}

impl Eq for LogBatch {
    ghost use Rattle.raft_records.specs.SameLaws.{same_batch_is_equivalence};

    ghost laws = { same_batch_is_equivalence };
}

impl Clone for LogBatch {
    ghost is_clone = { λ batch copy. copy ≡ batch };

    /// Returns a copy of the batch: the same items and entry bytes, at the same stage.
    ///
    /// # Errors
    ///
    /// `AllocError` if there is no memory for it.
    fn clone(&self) -> AllocResult<LogBatch> {
        Ok(LogBatch {
            item_batch: <LogItemBatch as Clone>::clone(&self.item_batch)?,
            state: self.state,
            buf: self.buf.clone()?,
        })
    }
}
