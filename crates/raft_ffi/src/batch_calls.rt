//! Exported calls of batches that are written: items are added to a batch, its bytes are made, and signed for a file.

ghost use Rattle.std.specs.Prelude.{◌≡◌, ◌≢◌, ℕ, ◌+◌, ◌-◌, ◌^◌, ◌<◌, ◌≤◌, [], IsTrue, IfErr, OnOk, OnErr, Option, Some, None, is_some, length, map, IfOk};
ghost use Rattle.raft_ffi.specs.Words.{AllByRecursion, AllHold, BothHold, HasStrings, HasText, HaveSmallNumbers, Holds, IsChangedIfMemory, IsChangedOrRefused, IsCopied, IsKeyRefusal, IsLogBatch, IsMadeIfMemory, IsRead, IsSealedStage, approximate_length};
ghost use Rattle.raft_ffi.specs.Words.{at_stage, bare, command_item, concat, empty_batch, encoded, encoded_length, entries_from, file_of, is_open, log_batch_bytes, pair_item, place_at, reserved_key, sealed, signature_of, sized_entries, stage_number};
ghost use Rattle.raft_ffi.specs.Words.{strings_of, with_batch, with_entries_added, with_item, written_to, Clean, Compact, Truncate, Put, Del};

use crate::handles::{Batch, Handle, Items, answer_with_value, unwrap_or_return, with_value};
use crate::item_list::take_items;
use crate::status::{File, Status, copy_front, memory_code, to_queue};
use raft_base::{CompressionType, EntryIndex, Error, FileBlockHandle, FileId, Result};
use raft_records::{Command, LogBatch};
use std::alloc::Global;

/// How many bytes the entries of a batch have at most.
const MOST_ENTRY_BYTES: usize = (1 << 31) - 1;

/// Makes an open batch without items in `batch`, which is empty before. Returns 0, or 11 (`Memory`): `batch` stays empty then.
#[unsafe(no_mangle)]
pub extern "C" fn raft_ffi_batch_new(alloc: Global, batch: &mut Batch) -> u32
    requires empty { batch.old.value ≡ None }
    ensures made { IsMadeIfMemory result empty_batch batch.new.value }
{
    memory_code(&batch.put_new(alloc, LogBatch::default(alloc)))
}

/// Returns how far a batch has come: 0 while it is open, 1 once its bytes are made, 2 once they are signed.
#[unsafe(no_mangle)]
pub extern "C" fn raft_ffi_batch_stage(alloc: Global, batch: &mut Batch) -> u32
    requires held { IsTrue (is_some batch.old.value) }
    ensures stage { IsRead (λ b. result ≡ stage_number b.stage) batch.old.value batch.new.value }
{
    match with_value!(held in batch, alloc; (held.is_open(), held.is_sealed())) {
        (true, _) => 0,
        (false, false) => 1,
        (false, true) => 2,
    }
}

/// Returns about how many bytes a batch has or will have: at least as many as it will, if all region ids and indexes are below
/// 2^56, unless it is too long to be encoded.
#[unsafe(no_mangle)]
pub extern "C" fn raft_ffi_batch_size(alloc: Global, batch: &mut Batch) -> usize
    requires held { IsTrue (is_some batch.old.value) }
    ensures same { batch.new.value ≡ batch.old.value }
    ensures size { Holds (λ b. result ≡ approximate_length b.stage b.items b.entry_bytes) batch.old.value }
    ensures covers { Holds (λ b. HaveSmallNumbers b.items → encoded_length b.items b.entry_bytes < 2 ^ 56 →
        encoded_length b.items b.entry_bytes ≤ result) batch.old.value }
{
    with_value!(held in batch, alloc; held.approximate_size())
}

/// Adds entries of a region to an open batch. Their indexes rise by one from `first` on, all below 2^64. The bytes of the
/// entries stand in `bytes`, one after another, and `lens` says how many each has; what stands after them isn't looked at.
/// Without entries nothing is added.
///
/// The code is 0; 9 (`Full`), if the batch would have 2^31 entry bytes or more; or 11 (`Memory`). The batch is unchanged after
/// an error.
#[unsafe(no_mangle)]
pub extern "C" fn raft_ffi_batch_add_entries(
    alloc: Global,
    batch: &mut Batch,
    region: u64,
    first: u64,
    lens: &[usize],
    bytes: &[u8],
    text: &mut [u8],
) -> Status
    requires held { IsTrue (is_some batch.old.value) }
    requires open { Holds (λ b. b.stage ≡ is_open) batch.old.value }
    requires indexes { first + length lens.now < 2 ^ 64 }
    requires strings { HasStrings lens.now bytes.now }
    ensures ok { result.code ≡ 0 → BothHold (λ old new. new ≡ with_entries_added old region (entries_from first
        lens.now) (strings_of lens.now bytes.now)) batch.old.value batch.new.value }
    ensures accepted { result.code ≡ 0 → lens.now ≢ [] → Holds (λ old. length old.entry_bytes
        + length (concat (strings_of lens.now bytes.now)) < 2 ^ 31) batch.old.value }
    ensures err { result.code ≢ 0 → batch.new.value ≡ batch.old.value }
    ensures refused { result.code ≢ 0 → lens.now ≢ [] }
    ensures fault { result.code ≢ 0 → result.code ≢ 11 → Holds (λ old. (result.code ≡ 9) × (2 ^ 31 ≤ length
        old.entry_bytes + length (concat (strings_of lens.now bytes.now)))) batch.old.value }
    ensures text { HasText result text.old text.new }
{
    answer_with_value!(held in batch, alloc, text; add_entries(alloc, &mut *held, region, first, lens, bytes))
}

/// Adds entries of a region to an open batch. Their indexes rise by one from `first` on. Their bytes stand in `bytes`, one
/// after another, and `lens` says how many each has. Without entries nothing is added.
///
/// # Errors
///
/// `Full` if the batch would have 2^31 entry bytes or more; `Memory`. The batch is unchanged then.
fn add_entries(
    alloc: Global,
    batch: &mut LogBatch,
    region: u64,
    first: u64,
    lens: &[usize],
    bytes: &[u8],
) -> Result<()>
    requires open { batch.old.stage ≡ is_open }
    requires indexes { first + length lens.now < 2 ^ 64 }
    requires strings { HasStrings lens.now bytes.now }
    ensures ok { OnOk result (batch.new ≡ with_entries_added batch.old region
        (entries_from first lens.now) (strings_of lens.now bytes.now)) }
    ensures accepted { OnOk result (lens.now ≢ [] → length batch.old.entry_bytes
        + length (concat (strings_of lens.now bytes.now)) < 2 ^ 31) }
    ensures err { OnErr result (batch.new ≡ batch.old) }
    ensures refused { OnErr result (lens.now ≢ []) }
    ensures fault { IfErr result (λ e. e ≢ Error.Memory → (e ≡ Error.Full) × (2 ^ 31
        ≤ length batch.old.entry_bytes + length (concat (strings_of lens.now bytes.now)))) }
{
    let [_, ..] = lens else {
        return Ok(());
    };
    let joined = joined_bytes(lens, bytes);
    if joined.len() > MOST_ENTRY_BYTES {
        return Err(Error::Full);
    }
    let entries = entries_of_lens(alloc, first, lens)?;
    batch.add_joined_entries(region, entries, joined)
}

/// Adds to an open batch that all records of a region are removed. Returns 0, or 11 (`Memory`): the batch is unchanged then.
#[unsafe(no_mangle)]
pub extern "C" fn raft_ffi_batch_clean(alloc: Global, batch: &mut Batch, region: u64) -> u32
    requires held { IsTrue (is_some batch.old.value) }
    requires open { Holds (λ b. b.stage ≡ is_open) batch.old.value }
    ensures changed { IsChangedIfMemory result (λ old new. new ≡ with_item old (command_item region Clean)) batch.old.value
        batch.new.value }
{
    answer_with_value!(held in batch, alloc; held.add_command(region, Command::Clean))
}

/// Adds to an open batch that the entries of a region below `index` are removed. Returns 0, or 11 (`Memory`): the batch is
/// unchanged then.
#[unsafe(no_mangle)]
pub extern "C" fn raft_ffi_batch_compact(
    alloc: Global,
    batch: &mut Batch,
    region: u64,
    index: u64,
) -> u32
    requires held { IsTrue (is_some batch.old.value) }
    requires open { Holds (λ b. b.stage ≡ is_open) batch.old.value }
    ensures changed { IsChangedIfMemory result (λ old new. new ≡ with_item old (command_item region (Compact index)))
        batch.old.value batch.new.value }
{
    answer_with_value!(held in batch, alloc; held.add_command(region, Command::Compact { index }))
}

/// Adds to an open batch that the entries of a region from `index` on are removed. Returns 0, or 11 (`Memory`): the batch is
/// unchanged then.
#[unsafe(no_mangle)]
pub extern "C" fn raft_ffi_batch_truncate(
    alloc: Global,
    batch: &mut Batch,
    region: u64,
    index: u64,
) -> u32
    requires held { IsTrue (is_some batch.old.value) }
    requires open { Holds (λ b. b.stage ≡ is_open) batch.old.value }
    ensures changed { IsChangedIfMemory result (λ old new. new ≡ with_item old (command_item region (Truncate index)))
        batch.old.value batch.new.value }
{
    answer_with_value!(held in batch, alloc; held.add_command(region, Command::Truncate { index }))
}

/// Adds to an open batch that `key` of a region gets `value`. The code is 0; 1 (`InvalidArgument`), if the key is that of the
/// group markers; or 11 (`Memory`). The batch is unchanged after an error.
#[unsafe(no_mangle)]
pub extern "C" fn raft_ffi_batch_put(
    alloc: Global,
    batch: &mut Batch,
    region: u64,
    key: &[u8],
    value: &[u8],
    text: &mut [u8],
) -> Status
    requires held { IsTrue (is_some batch.old.value) }
    requires open { Holds (λ b. b.stage ≡ is_open) batch.old.value }
    ensures changed { IsChangedOrRefused result.code (λ old new. new ≡ with_item old (pair_item region Put key.now (Some
        value.now))) (λ _. IsKeyRefusal key.now) batch.old.value batch.new.value }
    ensures accepted { result.code ≡ 0 → key.now ≢ reserved_key }
    ensures text { HasText result text.old text.new }
{
    answer_with_value!(held in batch, alloc, text; add_put(alloc, &mut *held, region, key, value))
}

/// Adds to an open batch that a key of a region gets a value, of both of which it takes copies.
///
/// # Errors
///
/// `InvalidArgument` if the key is that of the group markers; `Memory`. The batch is unchanged then.
fn add_put(alloc: Global, batch: &mut LogBatch, region: u64, key: &[u8], value: &[u8]) -> Result<()>
    requires { batch.old.stage ≡ is_open }
    ensures ok { OnOk result (batch.new ≡ with_item batch.old (pair_item region Put key.now (Some value.now))) }
    ensures accepted { OnOk result (key.now ≢ reserved_key) }
    ensures err { OnErr result (batch.new ≡ batch.old) }
    ensures fault { IfErr result (IsKeyRefusal key.now) }
{
    let key = Vec::from_slice(alloc, key)?;
    let value = Vec::from_slice(alloc, value)?;
    batch.put(region, key, value)
}

/// Adds to an open batch that `key` of a region is deleted. Returns 0, or 11 (`Memory`): the batch is unchanged then.
#[unsafe(no_mangle)]
pub extern "C" fn raft_ffi_batch_delete(
    alloc: Global,
    batch: &mut Batch,
    region: u64,
    key: &[u8],
) -> u32
    requires held { IsTrue (is_some batch.old.value) }
    requires open { Holds (λ b. b.stage ≡ is_open) batch.old.value }
    ensures changed { IsChangedIfMemory result (λ old new. new ≡ with_item old (pair_item region Del key.now None)) batch.old.value
        batch.new.value }
{
    let key = unwrap_or_return!(Vec::from_slice(alloc, key));
    answer_with_value!(held in batch, alloc; held.delete(region, key))
}

/// Moves all items of `more`, an open batch, to the end of `batch`, an open one too; `more` is then without items. The code is 0;
/// 9 (`Full`), if both have 2^31 entry bytes or more together; or 11 (`Memory`). Both are unchanged after an error.
#[unsafe(no_mangle)]
pub extern "C" fn raft_ffi_batch_merge(
    alloc: Global,
    batch: &mut Batch,
    more: &mut Batch,
    text: &mut [u8],
) -> Status
    requires held { IsTrue (is_some batch.old.value) }
    requires more_held { IsTrue (is_some more.old.value) }
    requires open { Holds (λ b. b.stage ≡ is_open) batch.old.value }
    requires more_open { Holds (λ b. b.stage ≡ is_open) more.old.value }
    ensures ok { result.code ≡ 0 → AllHold (λ rhs old new. new ≡ with_batch old rhs)
        more.old.value batch.old.value batch.new.value }
    ensures emptied { result.code ≡ 0 → more.new.value ≡ Some empty_batch }
    ensures accepted { result.code ≡ 0 → BothHold (λ old rhs. length old.entry_bytes
        + length rhs.entry_bytes < 2 ^ 31) batch.old.value more.old.value }
    ensures err { result.code ≢ 0 → batch.new.value ≡ batch.old.value }
    ensures more_err { result.code ≢ 0 → more.new.value ≡ more.old.value }
    ensures refused { result.code ≢ 0 → Holds (λ rhs. rhs.items ≢ []) more.old.value }
    ensures fault { result.code ≢ 0 → result.code ≢ 11 → BothHold (λ old rhs. (result.code ≡ 9) × (2 ^ 31 ≤ length
        old.entry_bytes + length rhs.entry_bytes)) batch.old.value more.old.value }
    ensures text { HasText result text.old text.new }
{
    answer_with_value!(held in batch, alloc, text; with_value!(rest in more, alloc; held.merge(&mut *rest)))
}

/// Makes the bytes of an open batch, to which nothing can be added from then on, and sets `len` to how many they are: 0
/// without items. The code is 0; 9 (`Full`), if they would be 2^56 or more; or 11 (`Memory`). The batch is unchanged after an
/// error.
#[unsafe(no_mangle)]
pub extern "C" fn raft_ffi_batch_finish(
    alloc: Global,
    batch: &mut Batch,
    len: &mut usize,
    text: &mut [u8],
) -> Status
    requires held { IsTrue (is_some batch.old.value) }
    requires open { Holds (λ b. b.stage ≡ is_open) batch.old.value }
    ensures ok { result.code ≡ 0 → BothHold (λ old new. new ≡ at_stage encoded old) batch.old.value batch.new.value }
    ensures len { result.code ≡ 0 → Holds (λ old. len.new ≡ encoded_length old.items old.entry_bytes) batch.old.value }
    ensures accepted { result.code ≡ 0 → Holds (λ old. encoded_length old.items old.entry_bytes < 2 ^ 56) batch.old.value }
    ensures err { result.code ≢ 0 → batch.new.value ≡ batch.old.value }
    ensures refused { result.code ≢ 0 → Holds (λ old. old.items ≢ []) batch.old.value }
    ensures fault { result.code ≢ 0 → result.code ≢ 11 → Holds (λ old. (result.code ≡ 9)
        × (2 ^ 56 ≤ encoded_length old.items old.entry_bytes)) batch.old.value }
    ensures text { HasText result text.old text.new }
{
    answer_with_value!(held in batch, alloc, len, text; held.finish_populate())
}

/// Signs the bytes of a batch, which isn't open any more, for `file`. It may be signed again, for another file.
#[unsafe(no_mangle)]
pub extern "C" fn raft_ffi_batch_sign(alloc: Global, batch: &mut Batch, file: File)
    requires held { IsTrue (is_some batch.old.value) }
    requires encoded { Holds (λ b. b.stage ≢ is_open) batch.old.value }
    ensures { BothHold (λ old new. new ≡ at_stage (sealed (signature_of (file_of file))) old) batch.old.value batch.new.value }
{
    with_value!(held in batch, alloc; held.prepare_write(&file.to_context()));
}

/// Copies the bytes of a signed batch into `bytes`, as many as there is room for. Returns how many the batch has, which may be
/// more than were copied: 0 without items.
#[unsafe(no_mangle)]
pub extern "C" fn raft_ffi_batch_bytes(alloc: Global, batch: &mut Batch, bytes: &mut [u8]) -> usize
    requires held { IsTrue (is_some batch.old.value) }
    requires sealed { Holds (λ b. IsSealedStage b.stage) batch.old.value }
    ensures same { batch.new.value ≡ batch.old.value }
    ensures bytes { Holds (λ b. (signature : Option ℕ) → b.stage ≡ sealed signature → IsCopied (log_batch_bytes
        signature b.items b.entry_bytes) bytes.old bytes.new result) batch.old.value }
    ensures read_again { Holds (λ b. (signature : Option ℕ) → b.stage ≡ sealed signature → b.items ≢ [] → IsLogBatch
        (log_batch_bytes signature b.items b.entry_bytes) signature (map bare b.items) b.entry_bytes) batch.old.value }
{
    with_value!(held in batch, alloc; copy_front(held.encoded_bytes(), bytes))
}

/// Gives each entry and each key value of a signed batch its place: the batch was written to file `seq` of a queue, from
/// `offset` on, which is at most 2^64 - 17, and has `len` bytes there.
#[unsafe(no_mangle)]
pub extern "C" fn raft_ffi_batch_written(
    alloc: Global,
    batch: &mut Batch,
    is_rewrite: bool,
    seq: u64,
    offset: u64,
    len: usize,
)
    requires held { IsTrue (is_some batch.old.value) }
    requires sealed { Holds (λ b. IsSealedStage b.stage) batch.old.value }
    requires offset { offset ≤ 2 ^ 64 - 17 }
    ensures placed { BothHold (λ old new. new
        ≡ written_to (place_at is_rewrite seq offset len) old) batch.old.value batch.new.value }
    ensures bytes { BothHold (λ old new. (signature : Option ℕ) → log_batch_bytes signature new.items new.entry_bytes ≡
        log_batch_bytes signature old.items old.entry_bytes) batch.old.value batch.new.value }
{
    let id = FileId::new(to_queue(is_rewrite), seq);
    with_value!(held in batch, alloc; held.finish_write(FileBlockHandle { id, offset, len }));
}

/// Takes the items out of a batch, at whatever stage, into `items`, which is empty before. The batch is gone then, after an
/// error too. Returns 0, or 11 (`Memory`): `items` stays empty then.
#[unsafe(no_mangle)]
pub extern "C" fn raft_ffi_batch_into_items(alloc: Global, batch: Batch, items: &mut Items) -> u32
    requires held { IsTrue (is_some batch.value) }
    requires empty { items.old.value ≡ None }
    ensures ok { result ≡ 0 → Holds (λ b. items.new.value ≡ Some b.items) batch.value }
    ensures err { result ≢ 0 → items.new.value ≡ None }
    ensures fault { result ≢ 0 → result ≡ 11 }
{
    let found = unwrap_or_return!(take_items(alloc, batch.into_held()));
    memory_code(&items.put_new(alloc, found))
}

/// Frees the batch.
#[unsafe(no_mangle)]
pub extern "C" fn raft_ffi_batch_drop(batch: Batch)
    requires held { IsTrue (is_some batch.value) }
{
    drop(batch.into_box());
}

/// Returns the bytes of `bytes` that belong to strings of the lengths `lens`, which stand at its start, one after another.
fn joined_bytes<'a>(lens: &[usize], bytes: &'a [u8]) -> &'a [u8]
    requires { HasStrings lens.now bytes.now }
    ensures { result.now ≡ concat (strings_of lens.now bytes.now) }
{
    let mut rest = bytes;
    for len in lens {
        let (_, after) = rest.split_at(*len);
        rest = after;
    }
    &bytes[..bytes.len() - rest.len()]
}

/// Returns entries of the lengths `lens` without places, whose indexes rise by one from `first` on.
///
/// # Errors
///
/// `Memory` alone.
fn entries_of_lens(alloc: Global, first: u64, lens: &[usize]) -> Result<Vec<EntryIndex>>
    requires indexes { first + length lens.now < 2 ^ 64 }
    requires lengths { AllByRecursion (λ len. len < 2 ^ 32) lens.now }
    ensures ok { IfOk result (λ entries. entries.items ≡ sized_entries first lens.now) }
    ensures memory { IfErr result (λ e. e ≡ Error.Memory) }
{
    let mut entries = Vec::with_capacity(alloc, lens.len())?;
    for k in 0..lens.len() {
        entries.push(EntryIndex {
            index: first + k as u64,
            entries: None,
            compression_type: CompressionType::None,
            entry_offset: 0,
            entry_len: lens[k] as u32,
        })?;
    }
    Ok(entries)
}
