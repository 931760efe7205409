//! Reads or replays a file up to the first batch that can't be read, and what stands from there on.

ghost use Rattle.std.specs.Prelude.{◌≡◌, ◌≢◌, ◌⊎◌, ◌+◌, ◌-◌, ◌≤◌, List, ℕ, length, IfErr, IfOk};
ghost use Rattle.raft_reading.specs.Common.{IsReadFault, IsUnread};
ghost use Rattle.raft_prefix.specs.Prefixes.{IsDamageRead, IsPrefixRead, IsPrefixReplayed, IsRestRead, IsTailRead};

use crate::pieces::bytes_wanted;
use crate::readable::{read_readable_batches, replay_readable};
use raft_base::{Error, LogFileContext, Result};
use raft_history::ReplayMachine;
use raft_reading::ReadFiles;
use raft_reading::file_pieces::{read_behind, remove_front};
use raft_records::FilePart;
use std::alloc::Global;

/// The readable prefix of a file: its batches, one after the other, up to the first one that can't be read.
#[derive(Drop)]
pub struct Prefix {
    /// How many bytes the prefix has.
    pub len: u64,
    /// Why no batch can be read after it; `None` if the file ends there.
    pub stopped: Option<Error>,
    /// The offsets in the file of its batches with damaged entries, in order; none in a rewrite file.
    pub damaged: Vec<u64>,
}

/// The readable prefix of a file whose batches were replayed, and the bytes after it that were read already.
#[derive(Drop)]
pub struct ReplayedPrefix {
    /// The prefix.
    pub prefix: Prefix,
    /// The bytes of the file right after the prefix, as many as were read.
    pub behind: Vec<u8>,
}

/// Returns the readable prefix of `file`, which has `len` bytes. It is read from `source` piece by piece, up
/// to the first batch that can't be read, and no byte twice. A piece is dropped once its batches are read, so
/// this takes memory for one piece and the longest batch, and 8 bytes for each batch with damaged entries.
/// The entries of each batch are checked against their checksum.
///
/// # Errors
///
/// `Corruption`, whose text begins with the file and the offset, at a batch of a rewrite file with damaged
/// entries; `Io`, whose text begins with the queue, the file and the offset, where a read fails, or gives
/// another number of bytes than it was asked for; `Memory`.
pub fn read_prefix<S: ReadFiles>(
    alloc: Global,
    source: &S,
    file: &LogFileContext,
    len: u64,
) -> Result<Prefix>
    ensures ok { IfOk result (IsPrefixRead (S.gives source.now file.now.id) file.now len) }
    ensures inside { IfOk result (λ prefix. prefix.len ≤ len) }
    ensures fault { IfErr result (λ e. e ≢ Error.Memory
        → IsUnread (S.gives source.now file.now.id) (S.may_fail source.now file.now.id) len e
        ⊎ IsDamageRead (S.gives source.now file.now.id) file.now len e) }
{
    let mut piece = Vec::new(alloc);
    let mut damaged = Vec::new(alloc);
    let mut at = 0;
    loop {
        let bytes = piece.as_slice();
        let (count, stopped) = read_readable_batches(alloc, file, at, bytes, &mut damaged)?;
        remove_front(&mut piece, count);
        at += count as u64;
        let left = len - at - piece.len() as u64;
        let wanted = bytes_wanted(alloc, piece.as_slice(), left);
        if wanted == 0 {
            let len = at;
            return Ok(Prefix {
                len,
                stopped,
                damaged,
            });
        }
        drop(stopped);
        read_behind(source, file.id, at, wanted, &mut piece)?;
    }
}

/// Replays the readable prefix of `file`, which has `len` bytes, into `machine`. The file is read from
/// `source` as [`read_prefix`] reads it. Returns the prefix, and the bytes after it that were read.
///
/// # Errors
///
/// Those of [`read_prefix`] and of the machine. Some of the batches may have been replayed then.
pub fn replay_prefix<M: ReplayMachine, S: ReadFiles>(
    machine: &mut M,
    alloc: Global,
    source: &S,
    file: &LogFileContext,
    len: u64,
) -> Result<ReplayedPrefix>
    ensures { IfOk result (IsPrefixReplayed (S.gives source.now file.now.id) file.now len M.stands_for M.stands_exactly
        machine.old machine.new) }
{
    let mut piece = Vec::new(alloc);
    let mut damaged = Vec::new(alloc);
    let mut at = 0;
    loop {
        let bytes = piece.as_slice();
        let (passed, stopped) = replay_readable(machine, alloc, file, at, bytes, &mut damaged)?;
        remove_front(&mut piece, passed);
        at += passed as u64;
        let left = len - at - piece.len() as u64;
        let more = bytes_wanted(alloc, piece.as_slice(), left);
        if more == 0 {
            let (len, behind) = (at, piece);
            let prefix = Prefix {
                len,
                stopped,
                damaged,
            };
            return Ok(ReplayedPrefix { prefix, behind });
        }
        drop(stopped);
        read_behind(source, file.id, at, more, &mut piece)?;
    }
}

/// Returns all bytes of `file` from offset `at` to its end, as a part. The file has `len` bytes. `behind` has
/// the first of these bytes, which were read already; only the others are read.
///
/// # Errors
///
/// `Io`, whose text begins with the queue, the file and the offset, where the read fails or gives another
/// number of bytes; `Memory`. `behind` is dropped then.
pub fn read_tail<S: ReadFiles>(
    source: &S,
    file: &LogFileContext,
    at: u64,
    behind: Vec<u8>,
    len: u64,
) -> Result<FilePart>
    requires { at + length behind.items ≤ len }
    ensures { IfOk result (IsTailRead (S.gives source.now file.now.id) file.now at behind.items len) }
{
    let mut bytes = behind;
    let left = len - at - bytes.len() as u64;
    read_behind(source, file.id, at, left as usize, &mut bytes)?;
    FilePart::new(file.id, file.version, at, bytes)
}

/// Returns all bytes of `file` from offset `at` to its end, as a part. The file has `len` bytes. They are
/// read at once.
///
/// # Errors
///
/// `Io`, whose text begins with the queue, the file and the offset, where the read fails or gives another
/// number of bytes; `Memory`.
pub fn read_rest<S: ReadFiles>(
    alloc: Global,
    source: &S,
    file: &LogFileContext,
    at: u64,
    len: u64,
) -> Result<FilePart>
    requires { at ≤ len }
    ensures ok { IfOk result (IsRestRead (S.gives source.now file.now.id) file.now at len) }
    ensures fault { IfErr result (λ e. e ≢ Error.Memory
        → IsReadFault (S.gives source.now file.now.id at) (S.may_fail source.now file.now.id at) (len - at) e) }
{
    let mut bytes = Vec::new(alloc);
    read_behind(source, file.id, at, (len - at) as usize, &mut bytes)?;
    FilePart::new(file.id, file.version, at, bytes)
}
