//! Walks through files that are read in pieces.

ghost use Rattle.std.specs.Prelude.{◌≡◌, ◌≢◌, ◌+◌, ◌<◌, ◌≤◌, ◌^◌, ◌++◌, length, take, drop, IfErr, IfOk, OnOk};
ghost use Rattle.raft_records.specs.FilePart.{part_of};
ghost use Rattle.raft_records.specs.Lines.{IsIoError};
ghost use Rattle.raft_reading.specs.FilesRead.{IsUnread};
ghost use Rattle.raft_reading.specs.QueueRead.{file_of};
ghost use Rattle.raft_listing.specs.Walks.{HasWalked};
ghost use Rattle.raft_survey.specs.FileWalks.{AreBatchesByHeader, AreBothWalked, AreFilesWalked, HasNoWhole, HasWalkedFile, IsFileUnread, IsOneOfBothUnread, IsOneUnread, IsPrefixWalked};

use crate::sizes::BothSizes;
use raft_base::{Error, FileId, LogFileContext, LogQueue, Result, Version};
use raft_listing::{PartVisitor, walk_part};
use raft_prefix::pieces::bytes_wanted;
use raft_reading::file_pieces::read_behind;
use raft_reading::{FileSize, ReadFiles};
use raft_records::FilePart;
use raft_replay::cutting::batch_length;
use std::alloc::Global;
use std::mem;

/// Shows `visitor` what stands in the files of both queues: first those of the append queue, then those of the rewrite queue, oldest first.
/// `sizes` names the files and says how many bytes of each are read; all are of `version`, and `source` reads them.
///
/// # Errors
///
/// Those of [`walk_file`]. The visitor was shown what stands before the place of the error.
pub fn walk_files<V: PartVisitor, S: ReadFiles>(
    alloc: Global,
    source: &S,
    version: Version,
    sizes: &BothSizes,
    visitor: &mut V,
) -> Result<()>
    ensures ok { OnOk result (AreBothWalked V.visits (S.gives source.now) version sizes.now.append.items
        sizes.now.rewrite.items visitor.old visitor.new) }
    ensures fault { IfErr result (λ e. (IsIoError e → ⊥) → e ≢ Error.Memory → V.may_fail e) }
    ensures unread { IfErr result (λ e. e ≢ Error.Memory → (V.may_fail e → ⊥)
        → IsOneOfBothUnread (S.gives source.now) (S.may_fail source.now) sizes.now.append.items sizes.now.rewrite.items e) }
{
    let (append, rewrite) = (sizes.append.as_slice(), sizes.rewrite.as_slice());
    walk_queue(alloc, source, LogQueue::Append, version, append, visitor)?;
    walk_queue(alloc, source, LogQueue::Rewrite, version, rewrite, visitor)
}

/// Shows `visitor` what stands in the files of `queue`, in the order of `sizes`, which names them and says how many bytes of each are read.
///
/// # Errors
///
/// Those of [`walk_file`]. The visitor was shown what stands before the place of the error.
fn walk_queue<V: PartVisitor, S: ReadFiles>(
    alloc: Global,
    source: &S,
    queue: LogQueue,
    version: Version,
    sizes: &[FileSize],
    visitor: &mut V,
) -> Result<()>
    ensures ok { OnOk result (AreFilesWalked V.visits (S.gives source.now) queue version sizes.now
        visitor.old visitor.new) }
    ensures fault { IfErr result (λ e. (IsIoError e → ⊥) → e ≢ Error.Memory → V.may_fail e) }
    ensures unread { IfErr result (λ e. e ≢ Error.Memory → (V.may_fail e → ⊥)
        → IsOneUnread (S.gives source.now) (S.may_fail source.now) queue sizes.now e) }
{
    for size in sizes {
        walk_sized_file(alloc, source, queue, version, size, visitor)?;
    }
    Ok(())
}

/// Shows `visitor` what stands in one file of `queue`: that with the number `size.seq`, of which the first `size.len` bytes are read.
///
/// # Errors
///
/// Those of [`walk_file`]. The visitor was shown what stands before the place of the error.
fn walk_sized_file<V: PartVisitor, S: ReadFiles>(
    alloc: Global,
    source: &S,
    queue: LogQueue,
    version: Version,
    size: &FileSize,
    visitor: &mut V,
) -> Result<()>
    ensures ok { OnOk result (HasWalkedFile V.visits (S.gives source.now (file_of queue size.now.seq))
        (record { id = file_of queue size.now.seq; version = version }) size.now.len visitor.old visitor.new) }
    ensures fault { IfErr result (λ e. (IsIoError e → ⊥) → e ≢ Error.Memory → V.may_fail e) }
    ensures unread { IfErr result (λ e. e ≢ Error.Memory → (V.may_fail e → ⊥)
        → IsFileUnread (S.gives source.now) (S.may_fail source.now) queue size.now e) }
{
    let file = LogFileContext::new(FileId::new(queue, size.seq), version);
    walk_file(alloc, source, &file, size.len, visitor)
}

/// Shows `visitor` what stands in `file`, of which the first `len` bytes are read from `source`, piece by piece. Whole batches are shown as
/// soon as they are read. If no header says that another batch ends within the file, all that was read is shown as the last part, and no
/// more is read. At most one piece and the longest batch are in memory at once.
///
/// # Errors
///
/// `Io`, whose text begins with the queue, the file and the offset, if a read fails, or gives another number of bytes than it was asked
/// for; those of the visitor; `Memory`. The visitor was shown what stands before the place of the error.
pub fn walk_file<V: PartVisitor, S: ReadFiles>(
    alloc: Global,
    source: &S,
    file: &LogFileContext,
    len: u64,
    visitor: &mut V,
) -> Result<()>
    ensures ok { OnOk result (HasWalkedFile V.visits (S.gives source.now file.now.id) file.now len visitor.old visitor.new) }
    ensures fault { IfErr result (λ e. (IsIoError e → ⊥) → e ≢ Error.Memory → V.may_fail e) }
    ensures unread { IfErr result (λ e. e ≢ Error.Memory → (V.may_fail e → ⊥)
        → IsUnread (S.gives source.now file.now.id) (S.may_fail source.now file.now.id) len e) }
{
    let mut piece = Vec::new(alloc);
    let mut at = 0;
    loop {
        at = walk_whole_batches(file, at, &mut piece, visitor)?;
        let left = len - at - piece.len() as u64;
        let wanted = bytes_wanted(alloc, piece.as_slice(), left);
        if wanted == 0 {
            return walk_piece(file, at, piece, visitor);
        }
        read_behind(source, file.id, at, wanted, &mut piece)?;
    }
}

/// Takes off `piece` the batches at its start that are whole in it, by their headers, and shows them to `visitor`. `at` is the offset in
/// the file at which `piece` begins. Returns the one at which it begins afterwards.
///
/// # Errors
///
/// Those of the visitor; `Memory`. The batches may have been taken off then.
fn walk_whole_batches<V: PartVisitor>(
    file: &LogFileContext,
    at: u64,
    piece: &mut Vec<u8>,
    visitor: &mut V,
) -> Result<u64>
    requires { at + length piece.old.items < 2 ^ 64 }
    ensures ok { IfOk result (λ next. IsPrefixWalked V.visits file.now at piece.old.items piece.new.items next visitor.old visitor.new) }
    ensures none { OnOk result (HasNoWhole piece.new.items) }
    ensures fault { IfErr result (λ e. e ≢ Error.Memory → V.may_fail e) }
{
    let prefix = take_whole_batches(piece)?;
    let count = prefix.len();
    walk_piece(file, at, prefix, visitor)?;
    Ok(at + count as u64)
}

/// Takes off `piece` the batches at its start that are whole in it, by their headers, and returns their bytes.
///
/// # Errors
///
/// `Memory` alone.
#[tactic(auto, using(crate::proofs::WalkedLemmas::split_again, crate::proofs::WalkedLemmas::cut_again, crate::proofs::WalkedLemmas::none_again))]
fn take_whole_batches(piece: &mut Vec<u8>) -> Result<Vec<u8>>
    ensures split { IfOk result (λ prefix. piece.old.items ≡ prefix.items ++ piece.new.items) }
    ensures cut { IfOk result (λ prefix. AreBatchesByHeader prefix.items) }
    ensures none { OnOk result (HasNoWhole piece.new.items) }
    ensures memory { IfErr result (λ e. e ≡ Error.Memory) }
{
    let alloc = *piece.allocator();
    let whole = whole_batches_length(alloc, piece.as_slice());
    let rest = piece.split_off(whole)?;
    Ok(mem::replace(piece, rest))
}

/// Shows `visitor` what stands in `piece`, which begins at offset `at` of the file.
///
/// # Errors
///
/// Those of the visitor; `Memory`.
fn walk_piece<V: PartVisitor>(
    file: &LogFileContext,
    at: u64,
    piece: Vec<u8>,
    visitor: &mut V,
) -> Result<()>
    requires { at + length piece.items < 2 ^ 64 }
    ensures ok { OnOk result (HasWalked V.visits (part_of file.now at piece.items) visitor.old visitor.new) }
    ensures fault { IfErr result (λ e. e ≢ Error.Memory → V.may_fail e) }
{
    let part = FilePart::new(file.id, file.version, at, piece)?;
    walk_part(&part, visitor)
}

/// Returns the length in bytes of the whole batches at the start of `bytes`: header after header is read until there is none, or its batch
/// ends after `bytes`.
fn whole_batches_length(alloc: Global, bytes: &[u8]) -> usize
    ensures inside { result ≤ length bytes.now }
    ensures whole { AreBatchesByHeader (take result bytes.now) }
    ensures none { HasNoWhole (drop result bytes.now) }
{
    let mut at = 0;
    loop {
        let (_, left) = bytes.split_at(at);
        let Some(len) = batch_length(alloc, left) else {
            return at;
        };
        at += len;
    }
}
