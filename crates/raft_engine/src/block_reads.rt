//! Reading entries by their blocks. `region` is the entries' region, which errors name.

ghost use Rattle.std.specs.Prelude.{◌≡◌, ◌↔◌, ◌+◌, ◌<◌, ◌≤◌, ◌∷◌, ◌++◌, ℕ, [], List, length, map, take, IfErr, IfOk, IfSome, IsSome, IsTrue, OnErr, OnOk, Some};
ghost use Rattle.raft_records.specs.Entries.{strings_in};
ghost use Rattle.raft_records.specs.Faults.{IsAnyCorruption};
ghost use Rattle.raft_records.specs.ItemBatch.{entry_lengths};
ghost use Rattle.raft_records.specs.Header.{IsEntryBlockOf, IsLentBlockFault};
ghost use Rattle.raft_engine_laws.specs.Contents.{bytes_of};
ghost use Rattle.raft_engine.specs.BlockReads.{AreBytesIn, AreNoBytesIn, IsBlockOf, IsKeptOf, IsNoBlockOf, IsOfEntry, IsSoundRead, IsUnreadOf};
ghost use Rattle.raft_engine.specs.Reads.{AreReadByBlocks, AreUnread};

use crate::limits::MAX_REWRITE_BATCH_BYTES;
use crate::parts;
use raft_base::{CompressionType, EntryIndex, Error, FileBlockHandle, FileId, Result};
use raft_files::EngineFiles;
use raft_records::{entry_bytes, lent_entry_block};
use raft_replay::segment::queue_name;
use std::alloc::Global;

/// The entry bytes of a block that was read, and its place.
#[derive(Drop)]
struct EntryBlock {
    /// The file, the offset and the length of the block.
    place: FileBlockHandle,
    /// The entry bytes, without their checksum, which holds.
    entries: Vec<u8>,
}

/// Reads the bytes of one entry: its whole block is read, and its checksum tested.
///
/// # Errors
///
/// Those of [`read_entries`].
pub fn read_one_entry<F: EngineFiles>(
    alloc: Global,
    files: &mut F,
    region: u64,
    entry: &EntryIndex,
) -> Result<Vec<u8>>
    ensures ok { IfOk result (λ bytes. AreReadByBlocks (entry.now ∷ []) (bytes.items ∷ [])
        (F.asked files.old) (F.asked files.new)) }
    ensures err { IfErr result (AreUnread F.may_fail region (entry.now ∷ []) (F.asked files.old) (F.asked files.new)) }
{
    let block = read_block_of(alloc, files, region, entry)?;
    copy_entry_bytes(alloc, region, &block, entry)
}

/// Reads the bytes of entries, and returns those of each, in order. A block that holds several neighbors is read once.
///
/// # Errors
///
/// Those of `EngineFiles::read`; `Corruption` if an entry has no place, or what stands there is no sound block with its bytes:
/// the text begins with the region, the index and the place then; `Memory`. Only reads were asked then.
pub fn read_entries<F: EngineFiles>(
    alloc: Global,
    files: &mut F,
    region: u64,
    entries: &[EntryIndex],
) -> Result<Vec<Vec<u8>>>
    ensures ok { IfOk result (λ strings. AreReadByBlocks entries.now
        (map (λ s. s.items) strings.items) (F.asked files.old) (F.asked files.new)) }
    ensures err { IfErr result (AreUnread F.may_fail region entries.now (F.asked files.old) (F.asked files.new)) }
{
    let mut strings = Vec::new(alloc);
    let mut last = None;
    for entry in entries {
        read_block_unless_kept(alloc, files, region, entry, &mut last)?;
        let Some(block) = &last else { unreachable!() };
        strings.push(copy_entry_bytes(alloc, region, block, entry)?)?;
    }
    Ok(strings)
}

/// Reads the bytes of entries, and returns them one after another, in order. A block that holds several neighbors is read
/// once.
///
/// # Errors
///
/// Those of [`read_entries`].
pub fn read_joined_entries<F: EngineFiles>(
    alloc: Global,
    files: &mut F,
    region: u64,
    entries: &[EntryIndex],
) -> Result<Vec<u8>>
    ensures lengths { IfOk result (λ bytes. entry_lengths entries.now ≡ length bytes.items) }
    ensures ok { IfOk result (λ bytes. AreReadByBlocks entries.now
        (strings_in entries.now bytes.items) (F.asked files.old) (F.asked files.new)) }
    ensures err { IfErr result (AreUnread F.may_fail region entries.now (F.asked files.old) (F.asked files.new)) }
{
    if entries.is_empty() {
        return Ok(Vec::new(alloc));
    }
    let room = parts::sum_entry_bytes(entries).min(MAX_REWRITE_BATCH_BYTES) as usize;
    let mut joined = Vec::with_capacity(alloc, room)?;
    let mut last = None;
    for entry in entries {
        read_block_unless_kept(alloc, files, region, entry, &mut last)?;
        let Some(block) = &last else { unreachable!() };
        push_entry_bytes(&mut joined, region, block, entry)?;
    }
    Ok(joined)
}

/// Makes `kept` the block at the place of an entry: it is read, unless it is the one that is kept.
///
/// # Errors
///
/// Those of [`read_entries`]. `kept` is unchanged then.
fn read_block_unless_kept<F: EngineFiles>(
    alloc: Global,
    files: &mut F,
    region: u64,
    entry: &EntryIndex,
    kept: &mut Option<EntryBlock>,
) -> Result<()>
    ensures some { OnOk result (IsSome kept.new) }
    ensures ok { OnOk result (IfSome kept.new (λ block. IsBlockOf entry.now kept.old block
        (F.asked files.old) (F.asked files.new))) }
    ensures err { IfErr result (IsNoBlockOf F.may_fail region entry.now kept.old (F.asked files.old)
        (F.asked files.new)) }
{
    if !holds_block_of(kept, entry) {
        *kept = Some(read_block_of(alloc, files, region, entry)?);
    }
    Ok(())
}

/// Tests whether `kept` is the block at the place of the entry.
fn holds_block_of(kept: &Option<EntryBlock>, entry: &EntryIndex) -> bool
    ensures { IsTrue result ↔ IsKeptOf entry.now kept.now }
{
    match kept {
        Some(block) => entry.entries == Some(block.place),
        None => false,
    }
}

/// Reads the block at the place of an entry, and tests its checksum.
///
/// # Errors
///
/// Those of [`read_entries`].
fn read_block_of<F: EngineFiles>(
    alloc: Global,
    files: &mut F,
    region: u64,
    entry: &EntryIndex,
) -> Result<EntryBlock>
    ensures placed { IfOk result (λ block. entry.now.entries ≡ Some block.place) }
    ensures ok { IfOk result (λ block. IsSoundRead block.place block.entries.items
        (F.asked files.old) (F.asked files.new)) }
    ensures err { IfErr result (IsUnreadOf F.may_fail region entry.now (F.asked files.old) (F.asked files.new)) }
{
    let Some(place) = entry.entries else {
        return Err(no_place_error(alloc, region, entry.index));
    };
    let mut entries = files.read(place)?;
    match checked_entries_len(alloc, entries.as_slice(), place.len, entry.compression_type) {
        Ok(len) => {
            entries.truncate(len);
            Ok(EntryBlock { place, entries })
        }
        Err(unsound) => Err(name_entry_in_error(alloc, region, entry.index, place, unsound)),
    }
}

/// Returns the error for an entry that has no place: `Corruption`, which names the region and the index, or `Memory`.
#[inline(never)]
fn no_place_error(alloc: Global, region: u64, index: u64) -> Error
    ensures { IsAnyCorruption result }
{
    let text = format!(in alloc; "region {region}, index {index}: the entry has no place");
    match text {
        Ok(text) => Error::Corruption(text),
        Err(_) => Error::Memory,
    }
}

/// Checks that `block` is a sound entry block of `len` bytes, and returns how many of these, from the first one on, are its
/// entry bytes: all but the checksum.
///
/// # Errors
///
/// `Corruption` if it isn't; `Memory`.
fn checked_entries_len(
    alloc: Global,
    block: &[u8],
    len: usize,
    compression_type: CompressionType,
) -> Result<usize>
    ensures ok { IfOk result (λ count. IsEntryBlockOf len block.now (take count block.now)) }
    ensures refused { OnErr result ((entries : List ℕ) → IsEntryBlockOf len block.now entries → ⊥) }
    ensures fault { IfErr result (IsLentBlockFault len block.now) }
{
    match compression_type {
        CompressionType::None => Ok(lent_entry_block(alloc, block, len)?.len()),
    }
}

/// Returns a copy of the bytes of an entry, which is in `block`.
///
/// # Errors
///
/// `Corruption` if they would end after the block; `Memory`.
fn copy_entry_bytes(
    alloc: Global,
    region: u64,
    block: &EntryBlock,
    entry: &EntryIndex,
) -> Result<Vec<u8>>
    ensures ok { IfOk result (λ bytes. AreBytesIn block.now.entries.items entry.now bytes.items) }
    ensures err { IfErr result
        (AreNoBytesIn region block.now.place block.now.entries.items entry.now) }
{
    let begin = entry.entry_offset as usize;
    let end = begin + entry.entry_len as usize;
    if block.entries.len() < end {
        return Err(short_block_error(alloc, region, block, entry));
    }
    Ok(Vec::from_slice(alloc, &block.entries[begin..end])?)
}

/// Appends the bytes of an entry, which is in `block`, to `joined`.
///
/// # Errors
///
/// `Corruption` if they would end after the block; `Memory`. Nothing is appended then.
fn push_entry_bytes(
    joined: &mut Vec<u8>,
    region: u64,
    block: &EntryBlock,
    entry: &EntryIndex,
) -> Result<()>
    ensures ok { OnOk result (joined.new.items
        ≡ joined.old.items ++ bytes_of block.now.entries.items entry.now) }
    ensures inside { OnOk result (entry.now.entry_offset + entry.now.entry_len
        ≤ length block.now.entries.items) }
    ensures err { IfErr result
        (AreNoBytesIn region block.now.place block.now.entries.items entry.now) }
{
    let begin = entry.entry_offset as usize;
    let end = begin + entry.entry_len as usize;
    if block.entries.len() < end {
        return Err(short_block_error(*joined.allocator(), region, block, entry));
    }
    Ok(joined.extend_from_slice(&block.entries[begin..end])?)
}

/// Returns the error for an entry whose bytes would end after its block: `Corruption`, which names the entry and the place, or
/// `Memory`.
#[inline(never)]
fn short_block_error(alloc: Global, region: u64, block: &EntryBlock, entry: &EntryIndex) -> Error
    requires { length block.now.entries.items < entry.now.entry_offset + entry.now.entry_len }
    ensures { AreNoBytesIn region block.now.place block.now.entries.items entry.now result }
{
    match entry_bytes(alloc, block.entries.as_slice(), entry) {
        Ok(_) => unreachable!(),
        Err(error) => name_entry_in_error(alloc, region, entry.index, block.place, error),
    }
}

/// Returns `error` with the entry that it is about: the text of a `Corruption` gets the region, the index and the place at its
/// start; any other error is unchanged. Returns `Memory` if there is none for the text.
fn name_entry_in_error(
    alloc: Global,
    region: u64,
    index: u64,
    place: FileBlockHandle,
    error: Error,
) -> Error
    ensures { IsOfEntry region index place error result }
{
    let Error::Corruption(reason) = error else {
        return error;
    };
    let FileId { queue, seq } = place.id;
    let name = queue_name(queue);
    let offset = place.offset;
    let text = format!(in alloc;
        "region {region}, index {index}, {name} file {seq}, offset {offset}: {reason}"
    );
    match text {
        Ok(text) => Error::Corruption(text),
        Err(_) => Error::Memory,
    }
}
