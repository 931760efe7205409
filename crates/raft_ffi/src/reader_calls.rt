//! Exported calls of readers, which read the files of a queue in pieces before an opening.

ghost use Rattle.std.specs.Prelude.{◌≡◌, ◌≢◌, ◌⊎◌, ◌+◌, ◌^◌, ◌<◌, length, take, drop, None, IsTrue, is_some};
ghost use Rattle.raft_ffi.specs.Words.{AllHold, ArePassedBy, AreReadersUnsound, BothHold, CannotFollow, HasBothFound, HasNoFront, HasReadNothing, HasText, HaveBothRead, Holds, HoldsFrom, IsCopied, IsCorruption, IsNoneFound, IsRead};
ghost use Rattle.raft_ffi.specs.Words.{IsReadable, IsRefusedFor, IsReplayedBy, ReadersStand, ReadersStandExactly, damaged_entries_text, file_of, part_of, queue_of, signature_of};

use crate::handles::{Handle, Reader, answer_or_drop, unwrap_or_return, with_value};
use crate::queue_reader::QueueReader;
use crate::status::{File, Status, copy_front, memory_code, status_of, store_and_answer, to_queue};
use raft_base::Result;
use raft_prefix::entry_blocks::damage_at;
use std::alloc::Global;

/// Makes a reader that has read nothing in `reader`, which is empty before. Returns 0, or 11 (`Memory`): it stays empty then.
#[unsafe(no_mangle)]
pub extern "C" fn raft_ffi_reader_new(alloc: Global, reader: &mut Reader) -> u32
    requires empty { reader.old.value ≡ None }
    ensures ok { result ≡ 0 → Holds HasReadNothing reader.new.value }
    ensures err { result ≢ 0 → reader.new.value ≡ None }
    ensures memory { result ≢ 0 → result ≡ 11 }
{
    let held = unwrap_or_return!(QueueReader::new(alloc));
    memory_code(&reader.put_new(alloc, held))
}

/// Replays `bytes`, batches that stand in `file` from `offset` on. The code is 0, or that of the error if a batch can't be
/// read or can't follow those before it, or 11 (`Memory`). After an error `reader` is empty: what it held may have taken in
/// some of the batches, and is dropped.
#[unsafe(no_mangle)]
pub extern "C" fn raft_ffi_reader_replay(
    alloc: Global,
    reader: &mut Reader,
    file: File,
    offset: u64,
    bytes: &[u8],
    text: &mut [u8],
) -> Status
    requires held { IsTrue (is_some reader.old.value) }
    requires ends { offset + length bytes.now < 2 ^ 64 }
    ensures ok { result.code ≡ 0 → BothHold (IsReplayedBy (part_of (file_of file) offset bytes.now)) reader.old.value reader.new.value }
    ensures none { result.code ≡ 0 → BothHold IsNoneFound reader.old.value reader.new.value }
    ensures err { result.code ≢ 0 → reader.new.value ≡ None }
    ensures refused { result.code ≢ 0 → result.code ≢ 11 → Holds (λ old. CannotFollow (HoldsFrom (part_of (file_of file)
        offset bytes.now) 0) (HaveBothRead old.read)) reader.old.value }
    ensures text { HasText result text.old text.new }
{
    answer_or_drop!(held in reader, alloc, text; held.replay(alloc, &file.to_context(), offset, bytes))
}

/// Replays the batches at the start of `bytes`, up to the first one that can't be read, and sets `len` to how many bytes they
/// have. `bytes` stand in the last file of a queue from `offset` on. The entries of each batch are checked: the reader notes
/// which batches of an append file have damaged ones; in a rewrite file the first such batch is an error.
///
/// The code is 0, or that of the error. After an error `reader` is empty, and `len` isn't set.
#[unsafe(no_mangle)]
pub extern "C" fn raft_ffi_reader_replay_last(
    alloc: Global,
    reader: &mut Reader,
    file: File,
    offset: u64,
    bytes: &[u8],
    len: &mut usize,
    text: &mut [u8],
) -> Status
    requires held { IsTrue (is_some reader.old.value) }
    requires ends { offset + length bytes.now < 2 ^ 64 }
    ensures ok { result.code ≡ 0 → BothHold (IsReplayedBy (part_of (file_of file) offset (take len.new bytes.now)))
        reader.old.value reader.new.value }
    ensures passed { result.code ≡ 0 → BothHold (ArePassedBy (file_of file) offset bytes.now len.new) reader.old.value reader.new.value }
    ensures stops { result.code ≡ 0 → (len.new ≡ length bytes.now)
        ⊎ HasNoFront (λ xs. IsReadable xs (signature_of (file_of file))) (drop len.new bytes.now) }
    ensures err { result.code ≢ 0 → reader.new.value ≡ None }
    ensures text { HasText result text.old text.new }
{
    let mut held = reader.take(alloc);
    let answer = held.replay_last(alloc, &file.to_context(), offset, bytes);
    match &answer {
        Ok(_) => reader.put(held),
        Err(_) => drop(held),
    }
    store_and_answer(alloc, answer, len, text)
}

/// Takes in what `newer` has read, the batches that follow in the same queue. `newer` is gone then. The code is 0, or that of
/// the error. After an error `reader` is empty too.
#[unsafe(no_mangle)]
pub extern "C" fn raft_ffi_reader_merge(
    alloc: Global,
    reader: &mut Reader,
    newer: Reader,
    is_rewrite: bool,
    text: &mut [u8],
) -> Status
    requires held { IsTrue (is_some reader.old.value) }
    requires newer { IsTrue (is_some newer.value) }
    ensures stands { result.code ≡ 0 → AllHold ReadersStand newer.value reader.old.value reader.new.value }
    ensures exact { result.code ≡ 0 → AllHold ReadersStandExactly newer.value reader.old.value reader.new.value }
    ensures found { result.code ≡ 0 → AllHold HasBothFound newer.value reader.old.value reader.new.value }
    ensures err { result.code ≢ 0 → reader.new.value ≡ None }
    ensures refused { result.code ≢ 0 → result.code ≢ 11
        → BothHold (AreReadersUnsound (queue_of is_rewrite)) reader.old.value newer.value }
    ensures text { HasText result text.old text.new }
{
    answer_or_drop!(held in reader, alloc, text; held.merge(newer.into_held(), to_queue(is_rewrite)))
}

/// Lists in `offsets` where in the last append file the batches with damaged entries begin that a reader has found, in order,
/// as many as there is room for. Returns how many there are, which may be more.
#[unsafe(no_mangle)]
pub extern "C" fn raft_ffi_reader_damaged(
    alloc: Global,
    reader: &mut Reader,
    offsets: &mut [u64],
) -> usize
    requires held { IsTrue (is_some reader.old.value) }
    ensures found { IsRead (λ r. IsCopied r.damaged offsets.old offsets.new result) reader.old.value reader.new.value }
{
    with_value!(held in reader, alloc; copy_front(held.damaged_offsets(), offsets))
}

/// Returns the error with which damaged entries of the batch that begins at `offset` of `file` are refused: its code, and its
/// text in `text`. Whether they are damaged isn't tested.
#[unsafe(no_mangle)]
pub extern "C" fn raft_ffi_damaged_entries(
    alloc: Global,
    file: File,
    offset: u64,
    text: &mut [u8],
) -> Status
    ensures refused { IsRefusedFor (IsCorruption (damaged_entries_text (file_of file).id offset)) result text.old text.new }
    ensures text { HasText result text.old text.new }
{
    let refused: Result<()> = Err(damage_at(alloc, file.to_context().id, offset));
    status_of(alloc, &refused, text)
}

/// Frees the reader.
#[unsafe(no_mangle)]
pub extern "C" fn raft_ffi_reader_drop(reader: Reader)
    requires held { IsTrue (is_some reader.value) }
{
    drop(reader.into_box());
}
