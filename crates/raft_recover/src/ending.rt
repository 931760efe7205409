//! How a run of a program over log files ends: its status, the hint at its words, and the word for a refusal.

ghost use Rattle.std.specs.Prelude.{◌≡◌, ◌≢◌};
ghost use Rattle.raft_recover.specs.Common.{error_kind, refusal_word};

use raft_base::Error;
use std::io;
use std::io::{ErrorKind, Write};

/// The status with which a process ends.
#[derive(Clone, Copy, PartialEq, Eq, Debug)]
pub(crate) enum Status {
    /// What was asked for is done, and nothing that was read is damaged.
    Done = 0,
    /// It was refused, or something can't be read.
    Refused = 1,
    /// The words ask for nothing that the program does.
    Misused = 2,
}

/// What a program prints if it doesn't do what it is asked for.
pub(crate) struct Program {
    /// The name that is printed before a refusal.
    pub(crate) name: &'static str,
    /// The hint at the words that the program understands.
    pub(crate) usage: &'static str,
}

impl Program {
    /// Prints the hint at the words that the program understands on `err`. Returns the status 2, also if it
    /// can't be printed.
    pub(crate) fn print_usage<E: Write>(&self, err: &mut E) -> u8
        ensures { result ≡ 2 }
    {
        let _ = err.write_all(self.usage.as_bytes());
        Status::Misused as u8
    }

    /// Prints `NAME: refused: WORD` on `err`, with the word for `error` ([`refusal`]). Returns the status 1,
    /// also if it can't be printed.
    pub(crate) fn print_refusal<E: Write>(&self, error: &Error, err: &mut E) -> u8
        ensures { result ≡ 1 }
    {
        let name = self.name;
        let word = refusal(error);
        let _ = writeln!(err, "{name}: refused: {word}");
        Status::Refused as u8
    }

    /// Reports on `err` that the words of a command line couldn't be read, and returns the status. If `error`
    /// is lack of memory, it prints that as a refusal, and returns 1; else it prints the hint at the words,
    /// and returns 2.
    pub(crate) fn report_unreadable_words<E: Write>(&self, error: &io::Error, err: &mut E) -> u8
        ensures memory { error_kind error.now ≡ ErrorKind.OutOfMemory → result ≡ 1 }
        ensures misused { error_kind error.now ≢ ErrorKind.OutOfMemory → result ≡ 2 }
    {
        if error.kind() == ErrorKind::OutOfMemory {
            return self.print_refusal(&Error::Memory, err);
        }
        self.print_usage(err)
    }
}

/// Returns the word that programs print for `error`, such as `corruption`, `invalid-argument` or `memory`.
#[doc(hidden)]
pub fn refusal(error: &Error) -> &'static str
    ensures { result.now ≡ refusal_word error.now }
{
    match error {
        Error::InvalidArgument(_) => "invalid-argument",
        Error::Corruption(_) => "corruption",
        Error::Io(_) => "io",
        Error::Codec(_) => "codec",
        Error::Message(_) => "message",
        Error::Full => "full",
        Error::Memory => "memory",
        _ => "failed",
    }
}
