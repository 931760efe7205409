//! The reasons why something isn't printed to its end.

ghost use Rattle.std.specs.Prelude.{◌≡◌, IfErr, OnErr, OnOk};
ghost use Rattle.std.specs.Io.KnownBytes.{Appends};
ghost use Rattle.raft_records.specs.Lines.{AppendsFront};
ghost use Rattle.raft_report.specs.Faults.{IsOutputFault};

use raft_base::Error;
use raft_records::write_whole;
use std::alloc::{AllocError, AllocFailed};
use std::io;
use std::io::Write;

/// The reason why something isn't printed to its end.
#[derive(Debug, Drop)]
pub enum PrintError {
    /// The files are refused or can't be read, or there is no memory.
    Files(Error),
    /// The output takes no more.
    Output(io::Error),
}

/// The result of a call that prints.
pub type PrintResult<T> = std::result::Result<T, PrintError>;

impl From<Error> for PrintError {
    ghost use Rattle.std.specs.Prelude.{◌≡◌};
    ghost use Rattle.raft_report.specs.declared.print_error.PrintError.TheVariants.{Files};

    ghost from_gives = { λ e r. r ≡ Files e };

    /// Returns the error as one about the files.
    fn from(e: Error) -> PrintError {
        PrintError::Files(e)
    }
}

impl From<AllocError> for PrintError {
    ghost use Rattle.std.specs.Prelude.{◌≡◌};
    ghost use Rattle.raft_base.specs.declared.errors.Error.TheVariants.{Memory};
    ghost use Rattle.raft_report.specs.declared.print_error.PrintError.TheVariants.{Files};

    ghost from_gives = { λ _ r. r ≡ Files Memory };

    /// Returns `Files` of `Memory`.
    fn from(_e: AllocError) -> PrintError {
        PrintError::Files(Error::Memory)
    }
}

impl<T: Drop> From<AllocFailed<T>> for PrintError {
    ghost use Rattle.std.specs.Prelude.{◌≡◌};
    ghost use Rattle.raft_base.specs.declared.errors.Error.TheVariants.{Memory};
    ghost use Rattle.raft_report.specs.declared.print_error.PrintError.TheVariants.{Files};

    ghost from_gives = { λ _ r. r ≡ Files Memory };

    /// Returns `Files` of `Memory`. What couldn't be stored is dropped.
    fn from(_e: AllocFailed<T>) -> PrintError {
        PrintError::Files(Error::Memory)
    }
}

/// Writes a text to an output.
///
/// # Errors
///
/// `Output` alone. A prefix of the text, but not all of it, is then written.
pub fn write_text<W: Write>(out: &mut W, text: &str) -> PrintResult<()>
    ensures ok { OnOk result (Appends (W.contents out.old) (W.contents out.new) text.now) }
    ensures err { OnErr result (AppendsFront (W.contents out.old) (W.contents out.new) text.now) }
    ensures fault { IfErr result IsOutputFault }
{
    match write_whole(out, text.as_bytes()) {
        Ok(()) => Ok(()),
        Err(Error::Io(error)) => Err(PrintError::Output(error)),
        Err(_) => unreachable!(),
    }
}
