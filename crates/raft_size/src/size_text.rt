//! Sizes read from texts, as a number with a unit.

ghost use Rattle.std.specs.Prelude.{◌≡◌, ◌≢◌, ◌≤◌, ◌^◌, [], IfSome, IfNone, IfOk, IfErr, ℕ};
ghost use Rattle.raft_size.specs.Common.{IsAscii, is_number_character, number_len, SpellsSize, IsSpellingFault, IsSizeText, IsSizeFault, IsUnit};

use super::size_number::SizeNumber;
use super::units::{B, GIB, KIB, MIB, PIB, TIB};
use thiserror::Error;

/// The reason why a text or a value isn't a size.
#[derive(Debug, Drop, Error, Clone, Copy, PartialEq, Eq)]
pub enum SizeError {
    /// The text is empty, or only white space.
    #[error("empty")]
    Empty,
    /// The text has a character that isn't ASCII.
    #[error("not ASCII")]
    NotAscii,
    /// What follows the number isn't a unit.
    #[error("only B, KB, KiB, MB, MiB, GB, GiB, TB, TiB, PB and PiB are supported")]
    Unit,
    /// What stands before the unit isn't a number.
    #[error("not a number")]
    Number,
    /// The number has more than 20 digits, leading zeros aside.
    #[error("more than 20 digits")]
    Digits,
    /// The value is neither a text nor a whole number of at least 0.
    #[error("neither a text nor a size in bytes")]
    Kind,
}

/// Returns the size in bytes that `text` stands for, rounded down; 0 if it is negative, and 2^64 - 1 if it is
/// larger. White space around it is ignored.
///
/// # Errors
///
/// The first of `Empty`, `NotAscii`, `Unit`, `Number` and `Digits` that applies.
pub(super) fn parse_size(text: &str) -> Result<u64, SizeError>
    ensures size { IfOk result (IsSizeText text.now) }
    ensures fault { IfErr result (IsSizeFault text.now) }
{
    let text = text.trim();
    if text.is_empty() {
        Err(SizeError::Empty)
    } else if text.is_ascii() {
        parse_ascii(text)
    } else {
        Err(SizeError::NotAscii)
    }
}

/// Returns the size in bytes that `text` stands for: its number times its unit, rounded down; 0 if that is
/// negative, and 2^64 - 1 if it is larger. `text` is ASCII, isn't empty, and has no white space around it.
///
/// # Errors
///
/// The first of `Unit`, `Number` and `Digits` that applies.
fn parse_ascii(text: &str) -> Result<u64, SizeError>
    requires some_text { text.now ≢ [] }
    requires ascii { IsAscii text.now }
    ensures size { IfOk result (SpellsSize text.now) }
    ensures fault { IfErr result (IsSpellingFault text.now) }
{
    let (front, rest) = text.split_at(number_prefix_len(text.as_bytes()));
    let Some(factor) = unit_factor(rest.trim()) else {
        return Err(SizeError::Unit);
    };
    let Some(number) = SizeNumber::parse(front.as_bytes()) else {
        return Err(SizeError::Number);
    };
    let Some(significand) = number.significand() else {
        return Err(SizeError::Digits);
    };
    Ok(number.size(significand, factor))
}

/// Returns the length of the longest prefix of `text` in which each byte may be of a number
/// ([`is_number_byte`]).
fn number_prefix_len(text: &[u8]) -> usize
    ensures { result ≡ number_len text.now }
{
    for (len, c) in text.iter().enumerate() {
        if !is_number_byte(*c) {
            return len;
        }
    }
    text.len()
}

/// Tests whether the byte `c` may be in a number: a digit, a point, a sign, or the `e` or `E` of an exponent.
fn is_number_byte(c: u8) -> bool
    ensures { result ≡ is_number_character c }
{
    c.is_ascii_digit() || matches!(c, b'.' | b'e' | b'E' | b'-' | b'+')
}

/// Returns how many bytes `unit` has, such as 1024 for `KiB`, or `None` if it isn't a unit. The empty text is
/// a unit of one byte.
fn unit_factor(unit: &str) -> Option<u64>
    ensures bound { IfSome result (λ factor. factor ≤ 2 ^ 50) }
    ensures known { IfSome result (IsUnit unit.now) }
    ensures unknown { IfNone result ((factor : ℕ) → IsUnit unit.now factor → ⊥) }
{
    match unit {
        "" | "B" => Some(B),
        "K" | "KB" | "KiB" => Some(KIB),
        "M" | "MB" | "MiB" => Some(MIB),
        "G" | "GB" | "GiB" => Some(GIB),
        "T" | "TB" | "TiB" => Some(TIB),
        "P" | "PB" | "PiB" => Some(PIB),
        _ => None,
    }
}
