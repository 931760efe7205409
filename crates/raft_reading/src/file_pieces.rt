//! Replays one file, piece by piece.

ghost use Rattle.std.specs.Prelude.{◌≡◌, ◌≢◌, ℕ, ◌+◌, ◌<◌, ◌≤◌, ◌^◌, List, ◌++◌, length, drop, IfOk, IfErr, OnOk};
ghost use Rattle.raft_reading.specs.Common.{Error, HasHeader, HasReplayed, HasReplayedFile, HeadersLead, HoldsFrom, IsAppended, IsFileStop, IsHopeless, IsIoOfKind, IsReadFault, IsReplayedFront, IsStoodFor, NoneIsWhole, StopsByFault, error_kind, part_of};

use crate::ReadFiles;
use raft_base::{Error, FileId, LogFileContext, Result};
use raft_history::ReplayMachine;
use raft_replay::cutting::{batch_length, read_batch_header};
use raft_replay::replay_bytes;
use raft_replay::segment::queue_name;
use std::alloc::Global;
use std::io;
use std::io::ErrorKind;

/// How many bytes of a file are read at once: 4 MiB, or more where a batch is longer.
pub const PIECE: usize = 4 << 20;

/// The length of the header of a log batch, in bytes.
const HEADER_LEN: usize = 16;

/// Replays the batches of `file`, which has `len` bytes and is read from `source`, into `machine`. It is read
/// piece by piece, no byte of it twice. A piece is dropped once the batches that are whole in it are
/// replayed, so this takes memory for one piece and the longest batch.
///
/// # Errors
///
/// `Io`, whose text begins with the queue, the file and the offset, if a read fails, or gives another number
/// of bytes than it was asked for, as when the file was changed meanwhile; `Memory`; and those of
/// [`replay_bytes`](raft_replay::replay_bytes) for all bytes of the file. Some of the batches may have been
/// replayed then.
pub fn replay_file<M: ReplayMachine, S: ReadFiles>(
    machine: &mut M,
    alloc: Global,
    source: &S,
    file: &LogFileContext,
    len: u64,
) -> Result<()>
    ensures ok { OnOk result (HasReplayedFile (S.gives source.now file.now.id) file.now len
        M.stands_for M.stands_exactly machine.old machine.new) }
    ensures fault { IfErr result (λ e. e ≢ Error.Memory → IsFileStop (S.gives source.now file.now.id)
        (S.may_fail source.now file.now.id) file.now len (M.stands_for machine.old)
        (IsStoodFor M.stands_for) e) }
{
    let mut piece = Vec::new(alloc);
    replay_file_with_buffer(machine, source, file, len, &mut piece)
}

/// Replays the batches of `file`, which has `len` bytes and is read from `source`, into `machine`, as
/// [`replay_file`] does. The pieces are read into the memory of `piece`, which is emptied first.
///
/// # Errors
///
/// Those of [`replay_file`]. Some of the batches may have been replayed then.
pub(crate) fn replay_file_with_buffer<M: ReplayMachine, S: ReadFiles>(
    machine: &mut M,
    source: &S,
    file: &LogFileContext,
    len: u64,
    piece: &mut Vec<u8>,
) -> Result<()>
    ensures ok { OnOk result (HasReplayedFile (S.gives source.now file.now.id) file.now len
        M.stands_for M.stands_exactly machine.old machine.new) }
    ensures fault { IfErr result (λ e. e ≢ Error.Memory → IsFileStop (S.gives source.now file.now.id)
        (S.may_fail source.now file.now.id) file.now len (M.stands_for machine.old)
        (IsStoodFor M.stands_for) e) }
{
    let alloc = *piece.allocator();
    piece.clear();
    let mut at = 0;
    loop {
        at = replay_whole_batches(machine, alloc, file, at, piece)?;
        let left = len - at - piece.len() as u64;
        let wanted = bytes_wanted(alloc, piece.as_slice(), left);
        if wanted == 0 {
            return replay_bytes(machine, alloc, file, at, piece.as_slice());
        }
        read_behind(source, file.id, at, wanted, piece)?;
    }
}

/// Replays the batches that are whole in `piece` into `machine`, and removes them from it. `at` is the offset
/// in the file of the first byte of `piece`. Returns the offset at which the rest of the piece begins.
///
/// # Errors
///
/// Those of [`replay_bytes`](raft_replay::replay_bytes). The piece is unchanged then.
fn replay_whole_batches<M: ReplayMachine>(
    machine: &mut M,
    alloc: Global,
    file: &LogFileContext,
    at: u64,
    piece: &mut Vec<u8>,
) -> Result<u64>
    requires ends { at + length piece.old.items < 2 ^ 64 }
    ensures ok { IfOk result (IsReplayedFront file.now at M.stands_for M.stands_exactly machine.old
        machine.new piece.old.items piece.new.items) }
    ensures last { OnOk result (NoneIsWhole piece.new.items) }
    ensures fault { IfErr result (λ e. (rest : List ℕ) → StopsByFault (M.stands_for machine.old)
        (IsStoodFor M.stands_for) (part_of file.now at (piece.old.items ++ rest)) e) }
{
    let whole = whole_batches_len(alloc, piece.as_slice());
    let (front, _) = piece.as_slice().split_at(whole);
    replay_bytes(machine, alloc, file, at, front)?;
    remove_front(piece, whole);
    Ok(at + whole as u64)
}

/// Returns how many bytes the batches have together that are whole at the start of `bytes`. It looks at their
/// headers alone.
fn whole_batches_len(alloc: Global, bytes: &[u8]) -> usize
    ensures led { HeadersLead bytes.now result }
    ensures inside { result ≤ length bytes.now }
    ensures last { NoneIsWhole (drop result bytes.now) }
{
    let mut at = 0;
    loop {
        let (_, left) = bytes.split_at(at);
        let Some(len) = batch_length(alloc, left) else {
            return at;
        };
        at += len;
    }
}

/// Removes the first `count` bytes of `bytes`, and moves the others to the start. There are at least `count`.
#[doc(hidden)]
pub fn remove_front(bytes: &mut Vec<u8>, count: usize)
    requires { count ≤ length bytes.old.items }
    ensures { bytes.new.items ≡ drop count bytes.old.items }
{
    let left = bytes.len() - count;
    bytes.copy_within(count.., 0);
    bytes.truncate(left);
}

/// Returns how many more bytes of a file to read before the first batch of `bytes`, which isn't whole yet, is
/// tried again. The file has `left` bytes after `bytes`. It is a piece ([`PIECE`]), or what the batch lacks
/// by its header, if that is more; a piece too if `bytes` are fewer than a header has. It is never more than
/// `left`.
///
/// 0 means that more bytes don't help: there are none, or the file ends before the batch does, or no header
/// stands at the start of `bytes`, though they are enough for one.
fn bytes_wanted(alloc: Global, bytes: &[u8], left: u64) -> usize
    requires { NoneIsWhole bytes.now }
    ensures some { result ≤ left }
    ensures none { result ≡ 0 → IsHopeless bytes.now left }
{
    let missing = if bytes.len() < HEADER_LEN {
        0
    } else if let Some((_, len)) = read_batch_header(alloc, bytes) {
        len - bytes.len()
    } else {
        return 0;
    };
    if missing as u64 > left {
        return 0;
    }
    (missing.max(PIECE) as u64).min(left) as usize
}

/// Reads `len` bytes of the file `file` and appends them to `piece`. They are those right after the bytes of
/// `piece`, whose first byte is at offset `at` of the file.
///
/// # Errors
///
/// `Io`, whose text begins with the place of the read, if it fails or gives another number of bytes;
/// `Memory`. Some of the bytes may have been appended then.
#[doc(hidden)]
pub fn read_behind<S: ReadFiles>(
    source: &S,
    file: FileId,
    at: u64,
    len: usize,
    piece: &mut Vec<u8>,
) -> Result<()>
    requires { at + length piece.old.items + len < 2 ^ 64 }
    ensures ok { OnOk result (IsAppended (λ bytes. (length bytes ≡ len) × S.gives source.now file
        (at + length piece.old.items) bytes) piece.old.items piece.new.items) }
    ensures fault { IfErr result (λ e. e ≢ Error.Memory → IsReadFault (S.gives source.now file (at + length piece.old.items))
        (S.may_fail source.now file (at + length piece.old.items)) len e) }
{
    let before = piece.len();
    let offset = at + before as u64;
    let alloc = *piece.allocator();
    piece.reserve_exact(len.saturating_add(1))?; // one more, so that who reads to the end finds it without growing the piece
    if let Err(error) = source.read(file, offset, len, piece) {
        return Err(read_error_at(alloc, file, offset, error));
    }
    if piece.len() != before + len {
        let miscount = "a read gave another number of bytes";
        let error = io::Error::new(ErrorKind::UnexpectedEof, miscount);
        return Err(read_error_at(alloc, file, offset, error));
    }
    Ok(())
}

/// Returns the `Io` error for a read of `file` at `offset` that failed with `error`: of the same kind, with
/// `append file 3, offset 1024: ` before its text. Returns `Memory` if there is none for the text.
fn read_error_at(alloc: Global, file: FileId, offset: u64, error: io::Error) -> Error
    ensures { IsIoOfKind (error_kind error) result }
{
    let queue = queue_name(file.queue);
    match format!(in alloc; "{queue} file {}, offset {offset}: {error}", file.seq) {
        Ok(text) => Error::Io(io::Error::new(error.kind(), text.as_str())),
        Err(_) => Error::Memory,
    }
}
