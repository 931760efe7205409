//! Keys, values and entries as text: in quotes, or as hex digits.

ghost use Rattle.std.specs.List.{AllByRecursion};
ghost use Rattle.std.specs.Prelude.{◌↔◌, IsTrue, OnOk, string_bytes};
ghost use Rattle.raft_listing.specs.Dumped.{Adds, IsPrintable, IsShown};

use raft_base::AllocResult;
use std::alloc::Global;
use std::str;

/// Appends `bytes` to `text` in quotes if each of them is a printable ASCII character other than a quote; else as `0x` and two hex digits
/// for each byte. `alloc` is used for the digits.
///
/// # Errors
///
/// Fails only if there is no memory. Some of it may then be appended.
#[tactic(auto, using(crate::proofs::ShownLemmas::printable_is_utf8))]
pub fn append_quoted_or_hex(alloc: Global, bytes: &[u8], text: &mut String) -> AllocResult<()>
    ensures { OnOk result (Adds (IsShown bytes.now) (string_bytes text.old) (string_bytes text.new)) }
{
    if !are_printable(bytes) {
        let digits = hex::encode(alloc, bytes)?;
        return write!(text, "0x{digits}");
    }
    match str::from_utf8(bytes) {
        Ok(shown) => write!(text, "\"{shown}\""),
        Err(_) => unreachable!(),
    }
}

/// Tests whether each byte is a printable ASCII character (a space counts as one) other than a quote.
fn are_printable(bytes: &[u8]) -> bool
    ensures { IsTrue result ↔ AllByRecursion IsPrintable bytes.now }
{
    for byte in bytes {
        if *byte < b' ' || *byte > b'~' || *byte == b'"' {
            return false;
        }
    }
    true
}
