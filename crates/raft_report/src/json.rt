//! The parts of lines of JSON: strings, numbers and lists. Each call fails for want of memory alone; one that appends may then have
//! appended some of its text.

ghost use Rattle.std.specs.Prelude.{◌≡◌, ◌++◌, map, string_bytes, IfOk, OnOk};
ghost use Rattle.hex.specs.Hex.{encode_lower};
ghost use Rattle.raft_listing.specs.Reasons.{reason_text};
ghost use Rattle.raft_report.specs.JsonData.{count, list_of};
ghost use Rattle.raft_report.specs.JsonLines.{queue_data};
ghost use Rattle.serde_json.specs.Data.{string};
ghost use Rattle.serde_json.specs.Written.{comma_if, compact_text};

use raft_base::{AllocResult, Error, LogQueue};
use raft_listing::append_reason;
use serde_json::Value;
use std::alloc::Global;
use std::fmt;

/// Returns a text as a string of JSON, in quotes and with what has to be escaped.
///
/// # Errors
///
/// Fails only if there is no memory.
pub fn text_as_json(alloc: Global, shown: &str) -> AllocResult<String>
    ensures { IfOk result (λ text. string_bytes text ≡ compact_text (string shown.now)) }
{
    let value = Value::try_from_str(alloc, shown)?;
    value.to_string(alloc)
}

/// Returns the text of an error as a string of JSON, in quotes. Its line breaks are spaces, as [`append_reason`] has them.
///
/// # Errors
///
/// Fails only if there is no memory.
pub fn reason_as_json(alloc: Global, reason: &Error) -> AllocResult<String>
    ensures { IfOk result (λ text. string_bytes text ≡ compact_text (string (reason_text reason.now))) }
{
    let mut words = String::new(alloc);
    append_reason(reason, &mut words)?;
    text_as_json(alloc, words.as_str())
}

/// Returns bytes as a string of JSON, in quotes: two lower-case hex digits for each byte.
///
/// # Errors
///
/// Fails only if there is no memory.
pub(crate) fn hex_as_json(alloc: Global, bytes: &[u8]) -> AllocResult<String>
    ensures { IfOk result (λ text. string_bytes text ≡ compact_text (string (encode_lower bytes.now))) }
{
    let digits = hex::encode(alloc, bytes)?;
    text_as_json(alloc, digits.as_str())
}

/// Returns the name of a queue as a string of JSON, in quotes.
fn queue_name_as_json(queue: LogQueue) -> &'static str
    ensures { result.now ≡ compact_text (queue_data queue) }
{
    match queue {
        LogQueue::Append => "\"append\"",
        LogQueue::Rewrite => "\"rewrite\"",
    }
}

/// A queue that is printed as its name in JSON, in quotes.
#[derive(Clone, Copy)]
pub struct QueueName(pub LogQueue);

impl fmt::Display for QueueName {
    ghost use Rattle.std.specs.Prelude.{Some};
    ghost use Rattle.raft_report.specs.JsonLines.{queue_data};
    ghost use Rattle.serde_json.specs.Written.{compact_text};

    ghost output = { λ name. Some (compact_text (queue_data name.0)) };

    /// Writes the name of the queue, in quotes.
    fn fmt<W: fmt::Write>(&self, f: &mut fmt::Formatter<W>) -> fmt::Result {
        f.write_str(queue_name_as_json(self.0))
    }
}

/// A number that may be missing, as it is printed in JSON: its digits, or `null`.
#[derive(Clone, Copy)]
pub(crate) struct Nullable(pub(crate) Option<u64>);

impl fmt::Display for Nullable {
    ghost use Rattle.std.specs.Prelude.{Some};
    ghost use Rattle.raft_report.specs.JsonData.{count_if};
    ghost use Rattle.serde_json.specs.Written.{compact_text};

    ghost output = { λ number. Some (compact_text (count_if number.0)) };

    /// Writes the number, or `null` if there is none.
    fn fmt<W: fmt::Write>(&self, f: &mut fmt::Formatter<W>) -> fmt::Result {
        match self.0 {
            Some(number) => write!(f, "{number}"),
            None => f.write_str("null"),
        }
    }
}

/// Appends numbers as a list of JSON, in brackets.
pub(crate) fn append_numbers(numbers: &[u64], text: &mut String) -> AllocResult<()>
    ensures { OnOk result (string_bytes text.new
        ≡ string_bytes text.old ++ compact_text (list_of (map count numbers.now))) }
{
    text.push('[')?;
    let mut later = false;
    for number in numbers {
        append_comma_if(later, text)?;
        write!(text, "{number}")?;
        later = true;
    }
    text.push(']')
}

/// Appends a comma if `later` is set: there is an element of the list before the next one.
pub(crate) fn append_comma_if(later: bool, text: &mut String) -> AllocResult<()>
    ensures { OnOk result (string_bytes text.new ≡ string_bytes text.old ++ comma_if later) }
{
    if later {
        return text.push(',');
    }
    Ok(())
}
