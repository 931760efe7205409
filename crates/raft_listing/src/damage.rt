//! What can't be read in a log file, and the reasons in words.

ghost use Rattle.std.specs.Prelude.{◌≡◌, ◌++◌, string_bytes, OnOk};
ghost use Rattle.raft_listing.specs.LossWords.{loss_words};
ghost use Rattle.std.specs.IoError.{error_kind};
ghost use Rattle.raft_listing.specs.Reasons.{in_line, io_words, reason_text, unbroken};

use raft_base::{AllocResult, Error};
use std::io;
use std::io::ErrorKind;

/// A place in a log file at which something can't be read.
#[derive(Debug, Drop)]
pub struct Damage {
    /// The offset in the file at which no batch can be read, or at which the batch with the lost entries begins.
    pub offset: u64,
    /// What can't be read there.
    pub kind: DamageKind,
}

/// What can't be read at a place: a batch, or entries of a batch.
#[derive(Debug, Drop)]
pub enum DamageKind {
    /// No batch can be read there, for this reason.
    Batch(Error),
    /// A batch can be read there, but some neighboring entries of one of its items can't be, all for one reason. They are of the region
    /// `region` and have the indexes `first` to `last`, both included.
    Entries {
        region: u64,
        first: u64,
        last: u64,
        loss: Loss,
    },
}

/// The reason why the bytes of an entry can't be read.
#[derive(Clone, Copy, PartialEq, Eq, Debug)]
pub enum Loss {
    /// Its entry block doesn't stand in the file, or the block's checksum doesn't hold.
    Block,
    /// By its offset and length the entry would end after its block.
    Outside,
    /// The entry names no block.
    Unplaced,
}

impl Loss {
    /// Returns the words for the reason, which stand in the lines of a check and of a dump.
    pub fn words(self) -> &'static str
        ensures { result.now ≡ loss_words self }
    {
        match self {
            Loss::Block =>
                "the entry block doesn't stand in the file, or its checksum doesn't hold",
            Loss::Outside => "the entry block is too short",
            Loss::Unplaced => "no entry block is named",
        }
    }
}

/// Appends the text of an error as one line, without an end of line. Line breaks in the text of the error become spaces.
///
/// # Errors
///
/// Fails only if there is no memory. Some of the text may then be appended.
pub fn append_reason(reason: &Error, text: &mut String) -> AllocResult<()>
    ensures { OnOk result (string_bytes text.new ≡ string_bytes text.old ++ reason_text reason.now) }
{
    match reason {
        Error::InvalidArgument(why) => append_named_reason("Invalid Argument: ", why, text),
        Error::Corruption(why) => append_named_reason("Corruption: ", why, text),
        Error::TryAgain(why) => append_named_reason("TryAgain Error: ", why, text),
        Error::Other(why) => append_named_reason("Other Error: ", why, text),
        Error::Io(why) => text.push_str(io_error_words(why)),
        Error::Codec(_) => text.push_str("Codec Error: a number is cut short, or is none"),
        Error::Message(_) => text.push_str("Message Error"),
        Error::EntryCompacted => text.push_str("Entry Compacted"),
        Error::EntryNotFound => text.push_str("Entry Not Found"),
        Error::Full => text.push_str("Full"),
        Error::Memory => text.push_str("Memory"),
        Error::Failed => text.push_str("Failed"),
    }
}

/// Returns the words for a read or a write that failed. Only an early end of the bytes is told from other failures.
fn io_error_words(error: &io::Error) -> &'static str
    ensures { result.now ≡ io_words (error_kind error.now) }
{
    match error.kind() {
        ErrorKind::UnexpectedEof => "IO Error: bytes end too early",
        _ => "IO Error: a read or a write failed",
    }
}

/// Appends `name`, and then `why` with spaces in place of its line breaks.
///
/// # Errors
///
/// Fails only if there is no memory. Some of the text may then be appended.
fn append_named_reason(name: &str, why: &String, text: &mut String) -> AllocResult<()>
    ensures { OnOk result (string_bytes text.new ≡ string_bytes text.old ++ (name.now ++ in_line (string_bytes why.now))) }
{
    text.push_str(name)?;
    for letter in why.chars() {
        text.push(replace_line_break(letter))?;
    }
    Ok(())
}

/// Returns a space for a line break, and any other character unchanged.
fn replace_line_break(letter: char) -> char
    ensures { result ≡ unbroken letter }
{
    if letter == '\n' { ' ' } else { letter }
}
