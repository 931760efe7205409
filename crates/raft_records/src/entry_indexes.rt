//! [`EntryIndexes`]: the entries of one item, without their own bytes, and how they are encoded.

ghost use Rattle.std.specs.Prelude.{◌≡◌, ◌≢◌, ◌↔◌, ◌-◌, ◌^◌, ◌<◌, ◌≤◌, ◌++◌, map, length, Some, IsTrue, IfOk, IfErr, IfSome, OnOk, OnErr, OnSome, ℕ};
ghost use Rattle.raft_records.specs.Common.{Reads, HasNoFront, IsEntries, IsTail, end_behind, tail_of, IsEntriesFault, IsTailFault, IsEntriesRefusal, RunOn, AreWritable, entry_between, varint, raised_entry, CanRaise, entries_size};
ghost use Rattle.raft_records.specs.Common.{at_most_usize, Keeps, tails_bytes, entries_bytes};

use crate::number::{append_number, append_whole};
use crate::read_batch::items::read_entries;
use raft_base::{
    AllocResult, CompressionType, EntryIndex, Error, FileBlockHandle, Result, is_consecutive,
};
use raft_codec::codec::{self, BytesSlice};
use std::alloc::Global;

/// Tests whether each of `entries` begins where the one before it ends, and all end at offset 2^32 - 1 at
/// most. Other entries can't be written. Returns true if there are no entries.
fn is_contiguous(entries: &[EntryIndex]) -> bool
    ensures { IsTrue result ↔ RunOn entries.now }
{
    let mut offset = match entries.first() {
        Some(first) => first.entry_offset,
        None => return true,
    };
    for entry in entries {
        if entry.entry_offset != offset || entry.entry_len > u32::MAX - offset {
            return false;
        }
        offset += entry.entry_len;
    }
    true
}

/// The entries of one item. Their indexes should be consecutive, and each entry should begin where the one
/// before it ends; both are tested only when the item is written.
#[derive(Clone, PartialEq, Eq, Debug, Drop)]
pub struct EntryIndexes(pub Vec<EntryIndex>);

impl EntryIndexes {
    /// Returns a copy of the entries.
    ///
    /// # Errors
    ///
    /// `Memory` alone.
    #[tactic(auto, using(crate::proofs::CloneLemmas::entries_clone))]
    pub fn clone(&self) -> Result<EntryIndexes>
        ensures ok { IfOk result (λ copy. copy.0.items ≡ self.now.0.items) }
        ensures memory { IfErr result (λ e. e ≡ Error.Memory) }
    {
        Ok(<EntryIndexes as Clone>::clone(self)?)
    }

    /// Returns the approximate length of the encoded entries in bytes, at most `usize::MAX`: eight each for
    /// their count, for the first index if there are entries, and for the end of each entry.
    pub(crate) fn approximate_size(&self) -> usize
        ensures { result ≡ at_most_usize (entries_size self.now.0.items) }
    {
        let tails = self.0.len().saturating_mul(8);
        let first = if self.0.is_empty() { 0 } else { 8 };
        tails.saturating_add(8 + first)
    }

    /// Sets the place of each entry to `handle`, and its compression type to `compression_type`.
    pub(crate) fn set_places(&mut self, handle: FileBlockHandle, compression_type: CompressionType)
        ensures { self.new.0.items ≡
            map (λ (e : EntryIndex). record e {
              entries = Some handle;
              compression_type = compression_type;
            }) self.old.0.items }
    {
        for entry in self.0.iter_mut() {
            entry.entries = Some(handle);
            entry.compression_type = compression_type;
        }
    }

    /// Adds `by` to the offset of each entry.
    pub(crate) fn raise_offsets(&mut self, by: u32)
        requires { CanRaise by self.old.0.items }
        ensures { self.new.0.items ≡ map (raised_entry by) self.old.0.items }
    {
        for entry in self.0.iter_mut() {
            entry.entry_offset += by;
        }
    }

    /// Tests whether the entries can be written: their indexes are consecutive, and each begins where the one
    /// before it ends.
    pub(crate) fn is_writable(&self) -> bool
        ensures { IsTrue result ↔ AreWritable self.now.0.items }
    {
        is_consecutive(self.0.as_slice()) && is_contiguous(self.0.as_slice())
    }

    /// Appends the bytes of the entries to `buf`: their count, the first index, and for each entry its *tail
    /// offset*, which is the offset of its end in the entry bytes of the batch; all in base 128. Without
    /// entries it is only the count 0.
    ///
    /// # Errors
    ///
    /// `InvalidArgument` if the indexes aren't consecutive, an entry doesn't begin where the one before it
    /// ends, or a tail offset is above 2^32 - 1; `Memory`. `buf` is unchanged then.
    pub fn encode(&self, buf: &mut Vec<u8>) -> Result<()>
        ensures ok { OnOk result (buf.new.items ≡ buf.old.items ++ entries_bytes self.now.0.items) }
        ensures accepted { OnOk result (AreWritable self.now.0.items) }
        ensures err { OnErr result (buf.new.items ≡ buf.old.items) }
        ensures fault { IfErr result (IsEntriesRefusal self.now.0.items) }
    {
        if !self.is_writable() {
            return Err(Error::invalid_argument(
                *buf.allocator(),
                "the entries are not consecutive or don't run on",
            ));
        }
        append_whole!(buf, self.append_to(buf))
    }

    /// Appends the bytes of the entries to `buf`, as [`EntryIndexes::encode`] does, without testing whether
    /// they can be written.
    ///
    /// # Errors
    ///
    /// `AllocError` if there is no memory for the bytes. `buf` may have more bytes at its end then, which the
    /// caller cuts off.
    pub(crate) fn append_to(&self, buf: &mut Vec<u8>) -> AllocResult<()>
        ensures ok { OnOk result (buf.new.items ≡ buf.old.items ++ entries_bytes self.now.0.items) }
        ensures err { OnErr result (Keeps buf.old.items buf.new.items) }
    {
        append_number(buf, self.0.len() as u64)?;
        match self.0.first() {
            Some(first) => append_run(buf, first.index, self.0.as_slice()),
            None => Ok(()),
        }
    }

    /// Reads the entries of an item from the start of `buf`, and moves `buf` past them. They have no place.
    /// `entries_size` is the number of bytes that the entries of the items before have together; the bytes of
    /// these entries are added to it.
    ///
    /// # Errors
    ///
    /// `Codec` if the bytes end early or a number is malformed; `Corruption` if an entry would have the index
    /// 2^64 - 1, or a tail offset is below the one before it or above 2^32 - 1; `Memory`. `buf` and
    /// `entries_size` are unchanged then.
    pub fn decode(
        alloc: Global,
        buf: &mut BytesSlice<'_>,
        entries_size: &mut u32,
    ) -> Result<EntryIndexes>
        ensures ok { IfOk result (λ es. Reads (IsEntries entries_size.old) buf.old.now buf.new.now
            es.0.items) }
        ensures size { IfOk result (λ es. entries_size.new
            ≡ end_behind entries_size.old es.0.items) }
        ensures err { OnErr result (buf.new.now ≡ buf.old.now) }
        ensures size_err { OnErr result (entries_size.new ≡ entries_size.old) }
        ensures refused { IfErr result (λ e. e ≢ Error.Memory →
            HasNoFront (IsEntries entries_size.old) buf.old.now) }
        ensures fault { IfErr result (IsEntriesFault entries_size.old buf.old.now) }
    {
        let mut entries: Vec<EntryIndex> = Vec::new(alloc);
        let (_, _, end, rest) = read_entries(alloc, *buf, *entries_size, &mut entries)?;
        *entries_size = end;
        *buf = rest;
        Ok(EntryIndexes(entries))
    }
}

/// Appends the index `first` and the tail offset of each of `entries` to `buf`, in base 128.
///
/// # Errors
///
/// `AllocError` if there is no memory for them. `buf` may have more bytes at its end then, which the caller
/// cuts off.
fn append_run(buf: &mut Vec<u8>, first: u64, entries: &[EntryIndex]) -> AllocResult<()>
    ensures ok { OnOk result (buf.new.items
        ≡ buf.old.items ++ (varint first ++ tails_bytes entries.now)) }
    ensures err { OnErr result (Keeps buf.old.items buf.new.items) }
{
    append_number(buf, first)?;
    for entry in entries {
        append_number(buf, tail_offset(entry))?;
    }
    Ok(())
}

/// Returns the offset at which `entry` ends in the entry bytes of its batch.
pub(crate) fn tail_offset(entry: &EntryIndex) -> u64
    ensures { result ≡ tail_of entry.now }
{
    u64::from(entry.entry_offset) + u64::from(entry.entry_len)
}

/// Reads a tail offset of at most four bytes from the start of `bytes`, and returns it with the bytes after
/// it. `offset` is where the entry begins, and `bounded` says that its index isn't 2^64 - 1. Returns `None`
/// if there is no such number, it is below `offset`, or `bounded` is false; [`parse_tail`] then reads it or
/// makes the error.
#[inline(always)]
#[tactic(auto, using(crate::proofs::EntryLemmas::tail_read, raft_codec::proofs::VarintLemmas::short_below, raft_codec::proofs::VarintLemmas::short_is_read))]
pub(crate) fn parse_short_tail(bytes: &[u8], offset: u32, bounded: bool) -> Option<(u32, &[u8])>
    ensures read { IfSome result (λ read. (index : ℕ) → index < 2 ^ 64 - 1 →
        Reads (IsTail (index, offset)) bytes.now read.1.now (entry_between index offset read.0)) }
    ensures ends { IfSome result (λ read. offset ≤ read.0) }
    ensures bounded { OnSome result (IsTrue bounded) }
    ensures shorter { IfSome result (λ read. length read.1.now < length bytes.now) }
{
    match codec::parse_short_var_u64(bytes) {
        Some((tail, rest)) if bounded && tail >= u64::from(offset) => Some((tail as u32, rest)),
        _ => None,
    }
}

/// Reads the tail offset of the entry `index`, which begins at `offset` in the entry bytes, from the start of
/// `bytes`. Returns it with the bytes after it.
///
/// # Errors
///
/// `Codec` if the bytes end early or the number is malformed; `Corruption` if `index` is 2^64 - 1, or the
/// tail offset is below `offset` or above 2^32 - 1; `Memory` if there is none for its text.
#[inline(never)]
#[tactic(auto, using(crate::proofs::EntryLemmas::tail_read))]
pub(crate) fn parse_tail(
    alloc: Global,
    bytes: &[u8],
    index: u64,
    offset: u32,
) -> Result<(u32, &[u8])>
    ensures ok { IfOk result (λ read.
        Reads (IsTail (index, offset)) bytes.now read.1.now (entry_between index offset read.0)) }
    ensures ends { IfOk result (λ read. offset ≤ read.0) }
    ensures bounded { OnOk result (index < 2 ^ 64 - 1) }
    ensures shorter { IfOk result (λ read. length read.1.now < length bytes.now) }
    ensures refused { OnErr result (HasNoFront (IsTail (index, offset)) bytes.now) }
    ensures fault { IfErr result (IsTailFault (index, offset) bytes.now) }
{
    if index == u64::MAX {
        return Err(Error::Corruption(format!(in alloc; "an entry would have the index {index}")?));
    }
    let (tail, rest) = codec::parse_var_u64(bytes)?;
    if tail < u64::from(offset) || tail > u64::from(u32::MAX) {
        return Err(Error::Corruption(format!(in alloc;
            "the tail offset {tail} is not from {offset} to 4294967295"
        )?));
    }
    Ok((tail as u32, rest))
}
