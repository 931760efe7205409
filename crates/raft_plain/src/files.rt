//! Whole files of a queue, as parts, and the printed tables of what they give.

ghost use Rattle.std.specs.Prelude.{◌≡◌, ◌≢◌, ◌⊎◌, map, IfOk, IfErr, OnOk};
ghost use Rattle.raft_plain.specs.Common.{FilesCannotBeRead, IsPrintFailure, Keeps, PrintsRecovered, file_shown, whole_file};

use crate::{print_plainly, recover_plainly};
use raft_base::{Error, FileId, FileSeq, LogQueue, Result, Version};
use raft_records::FilePart;
use std::alloc::Global;
use std::io::Write;

/// Returns a part for each of `files` of `queue`, in order. It has all bytes of the file, which aren't
/// copied.
///
/// # Errors
///
/// `Memory` alone. The files are dropped then.
pub fn file_parts(
    queue: LogQueue,
    version: Version,
    files: Vec<(FileSeq, Vec<u8>)>,
) -> Result<Vec<FilePart>>
    ensures ok { IfOk result (λ parts. parts.items
        ≡ map (whole_file queue version) (map file_shown files.items)) }
    ensures memory { IfErr result (λ e. e ≡ Error.Memory) }
{
    let mut parts = Vec::new(*files.allocator());
    for (seq, bytes) in files {
        parts.push(FilePart::new(FileId::new(queue, seq), version, 0, bytes)?)?;
    }
    Ok(parts)
}

/// Recovers the records of `files` of `queue`, and prints them in the lines of [`print_plainly`].
///
/// # Errors
///
/// Those of [`recover_plainly`]; nothing has been written then. `Io` if the writer fails; a part of the
/// lines, from the first byte on, may have been written then.
pub fn print_files_plainly<W: Write>(
    alloc: Global,
    queue: LogQueue,
    version: Version,
    files: Vec<(FileSeq, Vec<u8>)>,
    writer: &mut W,
) -> Result<()>
    ensures ok { OnOk result (PrintsRecovered queue version (map file_shown files.items)
        (W.contents writer.old) (W.contents writer.new)) }
    ensures silent { IfErr result (λ e. Keeps (W.contents writer.old) (W.contents writer.new)
        ⊎ IsPrintFailure queue version (map file_shown files.items) (W.contents writer.old)
        (W.contents writer.new) e) }
    ensures refused { IfErr result (λ e. e ≢ Error.Memory
        → FilesCannotBeRead queue version (map file_shown files.items)
        ⊎ IsPrintFailure queue version (map file_shown files.items) (W.contents writer.old)
        (W.contents writer.new) e) }
{
    let parts = file_parts(queue, version, files)?;
    let recovered = recover_plainly(alloc, queue, parts.as_slice())?;
    print_plainly(alloc, &recovered, writer)
}
