//! What the calls of a row give, and what refused calls leave.

ghost use Rattle.std.specs.Prelude.{◌≡◌};

use raft_records::{Error, Result};
use raft_recover::refusal;
use std::alloc::Global;

/// The lines of a row, and whether refused calls have left what they must leave.
#[derive(Drop)]
pub(crate) struct Found {
    /// The allocator of all that the row makes.
    pub(crate) alloc: Global,
    /// The lines so far, which are printed at the end.
    pub(crate) lines: Vec<u8>,
    /// False once a refused call has left something else than it must leave.
    pub(crate) stands: bool,
    /// Whether a call that was made again returned `Memory` once more.
    pub(crate) is_in_vain: bool,
}

impl Found {
    /// Returns the results of a row that has made no call yet.
    pub(crate) fn new(alloc: Global) -> Found {
        Found {
            alloc,
            lines: Vec::new(alloc),
            stands: true,
            is_in_vain: false,
        }
    }

    /// Appends a line with `text`.
    ///
    /// # Errors
    ///
    /// `Memory` alone. A part of the line may have been appended then.
    pub(crate) fn append_line(&mut self, text: &str) -> Result<()> {
        self.lines.extend_from_slice(text.as_bytes())?;
        self.lines.push(b'\n')?;
        Ok(())
    }

    /// Appends a line with `bytes` in hexadecimal digits, or `-` if there are none.
    ///
    /// # Errors
    ///
    /// `Memory` alone. A part of the line may have been appended then.
    pub(crate) fn append_hex_line(&mut self, bytes: &[u8]) -> Result<()> {
        if bytes.is_empty() {
            return self.append_line("-");
        }
        let digits = hex::encode(self.alloc, bytes)?;
        self.append_line(digits.as_str())
    }

    /// Notes whether a refused call has left what it must leave, which `stands` says. One `false` counts for
    /// the whole row.
    pub(crate) fn note_what_refusal_left(&mut self, stands: bool) {
        if !stands {
            self.stands = false;
        }
    }

    /// Appends a line with the word for `error` ([`refusal_word`]).
    ///
    /// # Errors
    ///
    /// `Memory` if `error` is that, which ends the row without a line; or if there is none for the line.
    pub(crate) fn append_error_word(&mut self, error: Error) -> Result<()> {
        if matches!(error, Error::Memory) {
            return Err(error);
        }
        self.append_line(refusal_word(&error))
    }

    /// Returns `answer`, the result of a call that was made again since the first one returned `Memory`.
    /// Notes if it is `Memory` once more.
    ///
    /// # Errors
    ///
    /// That of `answer`.
    pub(crate) fn note_second_try<T>(&mut self, answer: Result<T>) -> Result<T>
        ensures { result ≡ answer }
    {
        if is_lack_of_memory(&answer) {
            self.is_in_vain = true;
        }
        answer
    }
}

/// Makes a call. If it returns `Memory`, notes in `$found` whether `$stands` holds, and makes the call once more.
macro_rules! call_twice {
    ($found:ident; $call:expr; $stands:expr) => {{
        let mut answer = $call;
        if crate::found::is_lack_of_memory(&answer) {
            $found.note_what_refusal_left($stands);
            answer = $call;
            answer = $found.note_second_try(answer);
        }
        answer
    }};
}

pub(crate) use call_twice;

/// Tests whether `answer`, the result of a call, is `Memory`.
pub(crate) fn is_lack_of_memory<T>(answer: &Result<T>) -> bool {
    matches!(answer, Err(Error::Memory))
}

/// Returns the word for `answer`, the result of a call: `ok`, or that of its error ([`refusal_word`]).
pub(crate) fn answer_word<T>(answer: &Result<T>) -> &'static str {
    match answer {
        Ok(_) => "ok",
        Err(error) => refusal_word(error),
    }
}

/// Returns the word for `error` in the lines: `compacted` and `not-found` for entries that aren't there, else
/// the word that `raftlog` prints, such as `corruption`.
fn refusal_word(error: &Error) -> &'static str {
    match error {
        Error::EntryCompacted => "compacted",
        Error::EntryNotFound => "not-found",
        _ => refusal(error),
    }
}
