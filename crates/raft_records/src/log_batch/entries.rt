//! How entries are added to a log batch, and how one batch is appended to another.
//!
//! The buffer of an open batch has 16 bytes of room for the header, and after them the entry bytes. A
//! function here that fails after it appended to the buffer leaves the appended bytes there, and
//! [`LogBatch`]'s own call cuts them off.

ghost use Rattle.std.specs.Prelude.{◌≡◌, ◌≢◌, ◌+◌, ◌-◌, ◌^◌, ◌<◌, ◌≤◌, [], ◌∷◌, ◌++◌, map, length, IfErr, OnOk, OnErr, drop, IsTrue, ◌↔◌, vec_len, vec_capacity};
ghost use Rattle.raft_records.specs.Common.{concat, IsConsecutive, entry_with_index, with_lengths, OneRefuses, entries_item, entry_bytes_of, entry_lengths, strings_in, with_offsets_from, is_open, with_entries_added, IsBytesFault, IsAddFault, empty_batch, with_batch};
ghost use Rattle.raft_records.specs.Common.{Keeps};

use super::{MAX_LOG_BATCH_BUFFER_CAP, MAX_LOG_ENTRIES_SIZE_PER_BATCH};
use crate::header::{LOG_BATCH_HEADER_LEN, reserve_header};
use crate::{LogBatch, LogItemBatch};
use raft_base::{AllocResult, CompressionType, EntryIndex, Error, Message, MessageExt, Result};
use std::mem;

/// The most bytes that the buffer of an open batch may have: the header's and the most entry bytes.
const MOST_OPEN_BYTES: usize = LOG_BATCH_HEADER_LEN + MAX_LOG_ENTRIES_SIZE_PER_BATCH as usize;

impl LogBatch {
    /// Adds `entries` of `region` as one item, with the bytes that each writes of itself. The batch must be
    /// open. If `entries` is empty, nothing is added.
    ///
    /// # Errors
    ///
    /// `InvalidArgument` if the indexes aren't consecutive; `Full` if the batch would have more than 2^31 - 1
    /// entry bytes; `Message` if an entry refuses to be written; `Memory`, which may also come in place of
    /// `InvalidArgument`, since memory is allocated first. The batch is unchanged then.
    pub fn add_entries<M: MessageExt>(&mut self, region: u64, entries: &[M::Entry]) -> Result<()>
        requires { self.old.stage ≡ is_open }
        ensures ok { OnOk result (self.new ≡ with_entries_added self.old region
            (map (λ e. entry_with_index (M.index_of e)) entries.now)
            (map M.Entry.bytes_of entries.now)) }
        ensures consecutive { OnOk result (IsConsecutive
            (map (λ e. entry_with_index (M.index_of e)) entries.now)) }
        ensures accepted { OnOk result (entries.now ≢ [] →
            length self.old.entry_bytes + length (concat (map M.Entry.bytes_of entries.now))
            < 2 ^ 31) }
        ensures err { OnErr result (self.new ≡ self.old) }
        ensures refused { OnErr result (entries.now ≢ []) }
        ensures fault { IfErr result (IsAddFault (OneRefuses M.Entry.refuses entries.now)
            (map (λ e. entry_with_index (M.index_of e)) entries.now)
            (length self.old.entry_bytes + length (concat (map M.Entry.bytes_of entries.now)))) }
    {
        if entries.is_empty() {
            return Ok(());
        }
        reserve_header(&mut self.buf)?;
        let start = self.buf.len();
        if let Err(e) = write_messages::<M>(&mut self.buf, &mut self.item_batch, region, entries) {
            self.buf.truncate(start);
            return Err(e);
        }
        Ok(())
    }

    /// Adds entries of `region` as one item: `entry_indexes` with consecutive indexes, and the bytes of each
    /// in `entries`, which has as many elements. The length and the offset of each index are set; its other
    /// fields stay. The batch must be open. If both are empty, nothing is added.
    ///
    /// # Errors
    ///
    /// `Full` if the batch would have more than 2^31 - 1 entry bytes; `Memory`. The batch is unchanged then,
    /// and both arguments are dropped.
    pub fn add_raw_entries(
        &mut self,
        region: u64,
        entry_indexes: Vec<EntryIndex>,
        entries: Vec<Vec<u8>>,
    ) -> Result<()>
        requires open { self.old.stage ≡ is_open }
        requires counts { length entry_indexes.items ≡ length entries.items }
        requires consecutive { IsConsecutive entry_indexes.items }
        ensures ok { OnOk result (self.new ≡ with_entries_added self.old region
            entry_indexes.items (map (λ e. e.items) entries.items)) }
        ensures accepted { OnOk result (entry_indexes.items ≢ [] →
            length self.old.entry_bytes + length (concat (map (λ e. e.items) entries.items))
            < 2 ^ 31) }
        ensures err { OnErr result (self.new ≡ self.old) }
        ensures refused { OnErr result (entry_indexes.items ≢ []) }
        ensures fault { IfErr result (λ e. e ≢ Error.Memory → (e ≡ Error.Full)
            × (2 ^ 31
            ≤ length self.old.entry_bytes + length (concat (map (λ e. e.items) entries.items)))) }
    {
        if entry_indexes.is_empty() {
            return Ok(());
        }
        reserve_header(&mut self.buf)?;
        let start = self.buf.len();
        if let Err(e) = write_raw_entries(
            &mut self.buf,
            &mut self.item_batch,
            region,
            entry_indexes,
            entries.as_slice(),
        ) {
            self.buf.truncate(start);
            return Err(e);
        }
        Ok(())
    }

    /// Adds entries of `region` as one item: `entry_indexes` with consecutive indexes, and the bytes of all
    /// of them, one entry after the other, in `bytes`. The lengths in `entry_indexes` say where to divide
    /// `bytes`, and must add up to its length. The offset of each index is set; its other fields stay. The
    /// batch must be open. If both are empty, nothing is added.
    ///
    /// # Errors
    ///
    /// `Full` if the batch would have more than 2^31 - 1 entry bytes; `Memory`. The batch is unchanged then,
    /// and `entry_indexes` is dropped.
    pub fn add_joined_entries(
        &mut self,
        region: u64,
        entry_indexes: Vec<EntryIndex>,
        bytes: &[u8],
    ) -> Result<()>
        requires open { self.old.stage ≡ is_open }
        requires lengths { entry_lengths entry_indexes.items ≡ length bytes.now }
        requires consecutive { IsConsecutive entry_indexes.items }
        ensures ok { OnOk result (self.new ≡ with_entries_added self.old region
            entry_indexes.items (strings_in entry_indexes.items bytes.now)) }
        ensures accepted { OnOk result (entry_indexes.items ≢ []
            → length self.old.entry_bytes + length bytes.now < 2 ^ 31) }
        ensures err { OnErr result (self.new ≡ self.old) }
        ensures refused { OnErr result (entry_indexes.items ≢ []) }
        ensures fault { IfErr result (λ e. e ≢ Error.Memory → (e ≡ Error.Full)
            × (2 ^ 31 ≤ length self.old.entry_bytes + length bytes.now)) }
    {
        if entry_indexes.is_empty() {
            return Ok(());
        }
        reserve_header(&mut self.buf)?;
        let start = self.buf.len();
        if let Err(e) = write_joined_entries(
            &mut self.buf,
            &mut self.item_batch,
            region,
            entry_indexes,
            bytes,
        ) {
            self.buf.truncate(start);
            return Err(e);
        }
        Ok(())
    }

    /// Moves the items of `rhs` and their entry bytes to the end of this batch, and leaves `rhs` empty. Both
    /// must be open.
    ///
    /// # Errors
    ///
    /// `Full` if this batch would have more than 2^31 - 1 entry bytes; `Memory`. Both are unchanged then.
    pub fn merge(&mut self, rhs: &mut LogBatch) -> Result<()>
        requires open { self.old.stage ≡ is_open }
        requires rhs_open { rhs.old.stage ≡ is_open }
        ensures ok { OnOk result (self.new ≡ with_batch self.old rhs.old) }
        ensures emptied { OnOk result (rhs.new ≡ empty_batch) }
        ensures accepted { OnOk result (length self.old.entry_bytes + length rhs.old.entry_bytes
            < 2 ^ 31) }
        ensures err { OnErr result (self.new ≡ self.old) }
        ensures rhs_err { OnErr result (rhs.new ≡ rhs.old) }
        ensures refused { OnErr result (rhs.old.items ≢ []) }
        ensures fault { IfErr result (λ e. e ≢ Error.Memory → (e ≡ Error.Full)
            × (2 ^ 31 ≤ length self.old.entry_bytes + length rhs.old.entry_bytes)) }
    {
        let own = u64::from(self.item_batch.entries_size());
        let others = u64::from(rhs.item_batch.entries_size());
        if rhs.is_empty() {
            return Ok(());
        }
        if own + others > MAX_LOG_ENTRIES_SIZE_PER_BATCH {
            return Err(Error::Full);
        }
        reserve_for_entry_bytes(&mut self.buf, rhs.buf.len())?;
        self.item_batch.merge(&mut rhs.item_batch)?;
        move_entry_bytes(&mut self.buf, &mut rhs.buf);
        Ok(())
    }
}

/// Appends the bytes of `entries` to `buf`, the buffer of a batch, and adds an item with `entry_indexes`, one
/// for each of them, to `item_batch`. The lengths of the indexes, and their offsets among the entry bytes of
/// the batch, are set.
///
/// # Errors
///
/// `Full` if the batch would have more than 2^31 - 1 entry bytes; `Memory`. `item_batch` is unchanged then;
/// `buf` may have more bytes at its end, which the caller cuts off.
fn write_raw_entries(
    buf: &mut Vec<u8>,
    item_batch: &mut LogItemBatch,
    region: u64,
    mut entry_indexes: Vec<EntryIndex>,
    entries: &[Vec<u8>],
) -> Result<()>
    requires whole { length buf.old.items ≡ 16 + entry_bytes_of item_batch.old }
    requires some { entry_indexes.items ≢ [] }
    requires counts { length entry_indexes.items ≡ length entries.now }
    requires consecutive { IsConsecutive entry_indexes.items }
    ensures bytes { OnOk result (buf.new.items
        ≡ buf.old.items ++ concat (map (λ e. e.items) entries.now)) }
    ensures items { OnOk result (item_batch.new ≡ item_batch.old
        ++ entries_item region (with_offsets_from (entry_bytes_of item_batch.old)
        (with_lengths entry_indexes.items (map (λ e. e.items) entries.now))) ∷ []) }
    ensures accepted { OnOk result (length buf.new.items < 16 + 2 ^ 31) }
    ensures err { OnErr result (item_batch.new ≡ item_batch.old) }
    ensures err_bytes { OnErr result (Keeps buf.old.items buf.new.items) }
    ensures fault { IfErr result (λ e. e ≢ Error.Memory → (e ≡ Error.Full)
        × (2 ^ 31
        ≤ entry_bytes_of item_batch.old + length (concat (map (λ e. e.items) entries.now)))) }
{
    append_raw_entries(buf, &mut entry_indexes, entries)?;
    item_batch.add_entry_indexes(region, entry_indexes)
}

/// Appends the bytes of `entries` to `buf`, the buffer of a batch, and sets the length of each of
/// `entry_indexes`, of which there are as many.
///
/// # Errors
///
/// `Full` if the batch would have more than 2^31 - 1 entry bytes; `Memory`. `buf` may have more bytes at its
/// end then, and some lengths may be set.
fn append_raw_entries(
    buf: &mut Vec<u8>,
    entry_indexes: &mut Vec<EntryIndex>,
    entries: &[Vec<u8>],
) -> Result<()>
    requires room { 16 ≤ length buf.old.items }
    requires counts { length entry_indexes.old.items ≡ length entries.now }
    ensures bytes { OnOk result (buf.new.items
        ≡ buf.old.items ++ concat (map (λ e. e.items) entries.now)) }
    ensures lengths { OnOk result (entry_indexes.new.items
        ≡ with_lengths entry_indexes.old.items (map (λ e. e.items) entries.now)) }
    ensures accepted { OnOk result (entries.now ≢ [] → length buf.new.items < 16 + 2 ^ 31) }
    ensures err { OnErr result (Keeps buf.old.items buf.new.items) }
    ensures fault { IfErr result (λ e. e ≢ Error.Memory → (e ≡ Error.Full) ×
        (2 ^ 31 ≤ length buf.old.items - 16 + length (concat (map (λ e. e.items) entries.now)))) }
{
    for (i, bytes) in entries.iter().enumerate() {
        if buf.len() + bytes.len() > MOST_OPEN_BYTES {
            return Err(Error::Full);
        }
        buf.extend_from_slice(bytes.as_slice())?;
        entry_indexes[i].entry_len = bytes.len() as u32;
    }
    Ok(())
}

/// Appends `bytes`, those of the entries one after the other, to `buf`, the buffer of a batch, and adds an
/// item with `entry_indexes` to `item_batch`. The indexes have the lengths of their entries already; their
/// offsets are set.
///
/// # Errors
///
/// `Full` if the batch would have more than 2^31 - 1 entry bytes; `Memory`. `item_batch` is unchanged then;
/// `buf` may have more bytes at its end, which the caller cuts off.
fn write_joined_entries(
    buf: &mut Vec<u8>,
    item_batch: &mut LogItemBatch,
    region: u64,
    entry_indexes: Vec<EntryIndex>,
    bytes: &[u8],
) -> Result<()>
    requires whole { length buf.old.items ≡ 16 + entry_bytes_of item_batch.old }
    requires lengths { entry_lengths entry_indexes.items ≡ length bytes.now }
    requires consecutive { IsConsecutive entry_indexes.items }
    ensures bytes { OnOk result (buf.new.items ≡ buf.old.items ++ bytes.now) }
    ensures items { OnOk result (item_batch.new ≡ item_batch.old ++ entries_item region
        (with_offsets_from (entry_bytes_of item_batch.old) entry_indexes.items) ∷ []) }
    ensures accepted { OnOk result (length buf.new.items < 16 + 2 ^ 31) }
    ensures err { OnErr result (item_batch.new ≡ item_batch.old) }
    ensures err_bytes { OnErr result (Keeps buf.old.items buf.new.items) }
    ensures fault { IfErr result (λ e. e ≢ Error.Memory → (e ≡ Error.Full)
        × (2 ^ 31 ≤ entry_bytes_of item_batch.old + length bytes.now)) }
{
    if bytes.len() + buf.len() > MOST_OPEN_BYTES {
        return Err(Error::Full);
    }
    buf.extend_from_slice(bytes)?;
    item_batch.add_entry_indexes(region, entry_indexes)
}

/// Appends the bytes that each of `entries` writes of itself to `buf`, the buffer of a batch, and adds an
/// item with their indexes, lengths and offsets to `item_batch`. `entries` isn't empty.
///
/// # Errors
///
/// `InvalidArgument` if the indexes aren't consecutive; `Full` if the batch would have more than 2^31 - 1
/// entry bytes; `Message` if an entry refuses to be written; `Memory`. `item_batch` is unchanged then; `buf`
/// may have more bytes at its end, which the caller cuts off.
fn write_messages<M: MessageExt>(
    buf: &mut Vec<u8>,
    item_batch: &mut LogItemBatch,
    region: u64,
    entries: &[M::Entry],
) -> Result<()>
    requires whole { length buf.old.items ≡ 16 + entry_bytes_of item_batch.old }
    requires some { entries.now ≢ [] }
    ensures bytes { OnOk result
        (buf.new.items ≡ buf.old.items ++ concat (map M.Entry.bytes_of entries.now)) }
    ensures items { OnOk result (item_batch.new ≡ item_batch.old
        ++ entries_item region (with_offsets_from (entry_bytes_of item_batch.old)
        (with_lengths (map (λ e. entry_with_index (M.index_of e)) entries.now)
        (map M.Entry.bytes_of entries.now))) ∷ []) }
    ensures consecutive { OnOk result (IsConsecutive
        (map (λ e. entry_with_index (M.index_of e)) entries.now)) }
    ensures accepted { OnOk result (length buf.new.items < 16 + 2 ^ 31) }
    ensures err { OnErr result (item_batch.new ≡ item_batch.old) }
    ensures err_bytes { OnErr result (Keeps buf.old.items buf.new.items) }
    ensures fault { IfErr result (IsAddFault (OneRefuses M.Entry.refuses entries.now)
        (map (λ e. entry_with_index (M.index_of e)) entries.now)
        (entry_bytes_of item_batch.old + length (concat (map M.Entry.bytes_of entries.now)))) }
{
    let mut entry_indexes = Vec::with_capacity(*buf.allocator(), entries.len())?;
    if !have_consecutive_indexes::<M>(entries) {
        return Err(Error::invalid_argument(
            *buf.allocator(),
            "the indexes of the entries are not consecutive",
        ));
    }
    append_messages::<M>(buf, &mut entry_indexes, entries)?;
    let end = (buf.len() - LOG_BATCH_HEADER_LEN) as u32;
    Ok(item_batch.add_entries_with_offsets(region, entry_indexes, end)?)
}

/// Tests whether the indexes of `entries` rise by one from each entry to the next, and none of them is 2^64 -
/// 1. Returns true if there are no entries.
fn have_consecutive_indexes<M: MessageExt>(entries: &[M::Entry]) -> bool
    ensures { IsTrue result ↔ IsConsecutive (map (λ e. entry_with_index (M.index_of e)) entries.now) }
{
    let mut index = match entries.first() {
        Some(first) => M::index(first),
        None => return true,
    };
    for entry in entries {
        if M::index(entry) != index || index == u64::MAX {
            return false;
        }
        index += 1;
    }
    true
}

/// Appends the bytes that each of `entries` writes of itself to `buf`, which begins with 16 bytes of room for
/// the header, and appends an [`EntryIndex`] for each to `entry_indexes`, which is empty and has room for
/// them.
///
/// # Errors
///
/// `Full` if the batch would have more than 2^31 - 1 entry bytes; `Message` if an entry refuses to be
/// written; `Memory`. Some of the bytes and indexes may have been appended then.
fn append_messages<M: MessageExt>(
    buf: &mut Vec<u8>,
    entry_indexes: &mut Vec<EntryIndex>,
    entries: &[M::Entry],
) -> Result<()>
    requires room { 16 ≤ length buf.old.items }
    requires none { vec_len entry_indexes.old ≡ 0 }
    requires places { length entries.now ≤ vec_capacity entry_indexes.old }
    ensures bytes { OnOk result
        (buf.new.items ≡ buf.old.items ++ concat (map M.Entry.bytes_of entries.now)) }
    ensures laid { OnOk result (entry_indexes.new.items
        ≡ with_offsets_from (length buf.old.items - 16)
        (with_lengths (map (λ e. entry_with_index (M.index_of e)) entries.now)
        (map M.Entry.bytes_of entries.now))) }
    ensures accepted { OnOk result (entries.now ≢ [] → length buf.new.items < 16 + 2 ^ 31) }
    ensures err { OnErr result (Keeps buf.old.items buf.new.items) }
    ensures fault { IfErr result (IsBytesFault (OneRefuses M.Entry.refuses entries.now)
        (length buf.old.items - 16 + length (concat (map M.Entry.bytes_of entries.now)))) }
{
    for entry in entries {
        let start = buf.len();
        entry.write_to_vec(buf)?;
        let end = buf.len();
        if end > MOST_OPEN_BYTES {
            return Err(Error::Full);
        }
        entry_indexes.push_reserved(EntryIndex {
            index: M::index(entry),
            entries: None,
            compression_type: CompressionType::None,
            entry_offset: (start - LOG_BATCH_HEADER_LEN) as u32,
            entry_len: (end - start) as u32,
        });
    }
    Ok(())
}

/// Makes room in `buf` for the entry bytes of another buffer of `len` bytes, so that [`move_entry_bytes`]
/// needn't allocate. It makes none if `buf` has no entry bytes itself: the two buffers are swapped then.
///
/// # Errors
///
/// `AllocError` if there is no memory for the room. The bytes of `buf` stay the same in any case.
fn reserve_for_entry_bytes(buf: &mut Vec<u8>, len: usize) -> AllocResult<()>
    ensures same { buf.new.items ≡ buf.old.items }
    ensures room { OnOk result (16 < length buf.old.items →
        length buf.old.items + (len - 16) ≤ vec_capacity buf.new) }
{
    if buf.len() > LOG_BATCH_HEADER_LEN {
        buf.reserve(len.saturating_sub(LOG_BATCH_HEADER_LEN))?;
    }
    Ok(())
}

/// Moves the entry bytes of the buffer `others` to the end of `buf`, which has room for them
/// ([`reserve_for_entry_bytes`]). `others` is left empty, with at most 8 MiB allocated.
fn move_entry_bytes(buf: &mut Vec<u8>, others: &mut Vec<u8>)
    requires { 16 < length buf.old.items →
        length buf.old.items + (length others.old.items - 16) ≤ vec_capacity buf.old }
    ensures joined { drop 16 buf.new.items ≡ drop 16 buf.old.items ++ drop 16 others.old.items }
    ensures emptied { others.new.items ≡ [] }
{
    if buf.len() <= LOG_BATCH_HEADER_LEN {
        mem::swap(buf, others);
    } else {
        append_entry_bytes(buf, others.as_slice());
    }
    others.clear();
    others.shrink_to(MAX_LOG_BATCH_BUFFER_CAP);
}

/// Appends the entry bytes of the buffer `others`, which are those after its first 16, to `buf`, which has
/// room for them.
fn append_entry_bytes(buf: &mut Vec<u8>, others: &[u8])
    requires { length buf.old.items + (length others.now - 16) ≤ vec_capacity buf.old }
    ensures { buf.new.items ≡ buf.old.items ++ drop 16 others.now }
{
    if others.len() > LOG_BATCH_HEADER_LEN
        && buf
            .extend_from_slice(&others[LOG_BATCH_HEADER_LEN..])
            .is_err()
    {
        unreachable!();
    }
}
