//! Dumps of the files of both queues.

ghost use Rattle.std.specs.Prelude.{◌≡◌, IfErr, IfOk};
ghost use Rattle.raft_records.specs.Lines.{IsIoError};
ghost use Rattle.raft_survey.specs.DumpedFiles.{AreDumped};

use crate::file_walk::walk_files;
use crate::sizes::BothSizes;
use raft_base::{Error, Result, Version};
use raft_listing::{Dump, DumpForm, Selection};
use raft_reading::ReadFiles;
use std::alloc::Global;
use std::io::Write;

/// Prints to `out` what stands in the files of both queues, batch by batch, in the form `form`. Only what `selection` has is printed.
/// `sizes` names the files and says how many bytes of each are read; all are of `version`, and `source` reads them. Returns `out` again,
/// after an error too, and whether there was a byte at which no batch could be read.
///
/// # Errors
///
/// `Io` if a read fails, or `out` takes no more; `Memory`. Some lines may have been printed then.
pub fn print_dump<F: DumpForm + Drop, S: ReadFiles, W: Write + Drop>(
    alloc: Global,
    source: &S,
    version: Version,
    sizes: &BothSizes,
    form: F,
    selection: Selection,
    out: W,
) -> (W, Result<bool>)
    ensures ok { IfOk result.1 (λ is_damaged. AreDumped F.says (S.gives source.now) version sizes.now.append.items
        sizes.now.rewrite.items selection (W.contents out) (W.contents result.0) is_damaged) }
    ensures fault { IfErr result.1 (λ e. (IsIoError e → ⊥) → e ≡ Error.Memory) }
{
    let mut dump = Dump {
        form,
        selection,
        writer: out,
        is_damaged: false,
    };
    let walked = walk_files(alloc, source, version, sizes, &mut dump);
    let Dump {
        writer,
        is_damaged,
        ..
    } = dump;
    match walked {
        Ok(()) => (writer, Ok(is_damaged)),
        Err(error) => (writer, Err(error)),
    }
}
