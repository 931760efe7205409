//! [`ReadableSize`], a size in bytes that is printed and read with a unit.

ghost use Rattle.std.specs.Prelude.{◌≡◌, ◌<◌, ◌≤◌, ◌*◌, ◌/◌, ◌^◌, ◌++◌, ℕ, List, length, Result, Ok, Some, IfOk};
ghost use Rattle.raft_size.specs.Common.{Logs, text, decimal, size_text, IsSizeText, IsReadAs, IsValueReadAs, ReadsSize, view};

use super::size_text::{SizeError, parse_size};
use super::units::{GIB, KIB, MIB, PIB, TIB};
use itoa::Buffer;
use serde::{
    Described, Deserialize, DeserializeOwned, Deserializer, Format, Serialize, Serializer,
};
use std::alloc::Global;
use std::fmt;
use std::fmt::InlineText;
use std::ops::{Div, Mul};
use std::str::FromStr;
use toml::Value;

/// The most decimal digits that a `u64` has.
const DIGITS: usize = 20;

/// The most characters that a unit has, as `KiB`.
const UNIT_LEN: usize = 3;

/// Room in bytes for the digits and the unit of a printed size.
const TEXT_ROOM: usize = 24;

/// Room in bytes for the longest text of a [`SizeError`].
const ERROR_ROOM: usize = 80;

/// A size in bytes. It is printed with a unit, as `2KiB`, and read with or without one, as `0.5 MB` or `512`.
#[derive(Clone, Copy, Debug, PartialEq, Eq, PartialOrd)]
pub struct ReadableSize(pub u64);

impl ReadableSize {
    ghost use Rattle.raft_size.specs.declared.readable_size.ReadableSize.{ReadableSize};
    ghost use Rattle.raft_size.specs.declared.size_text.SizeError.{SizeError};

    /// Returns the size of `count` KiB (2^10 bytes each), which must be below 2^64 bytes.
    pub const fn kb(count: u64) -> ReadableSize
        requires { count * 2 ^ 10 < 2 ^ 64 }
        ensures { result.0 ≡ count * 2 ^ 10 }
    {
        ReadableSize(count * KIB)
    }

    /// Returns the size of `count` MiB (2^20 bytes each), which must be below 2^64 bytes.
    pub const fn mb(count: u64) -> ReadableSize
        requires { count * 2 ^ 20 < 2 ^ 64 }
        ensures { result.0 ≡ count * 2 ^ 20 }
    {
        ReadableSize(count * MIB)
    }

    /// Returns the size of `count` GiB (2^30 bytes each), which must be below 2^64 bytes.
    pub const fn gb(count: u64) -> ReadableSize
        requires { count * 2 ^ 30 < 2 ^ 64 }
        ensures { result.0 ≡ count * 2 ^ 30 }
    {
        ReadableSize(count * GIB)
    }

    /// Returns the size in MiB (2^20 bytes), rounded down.
    pub const fn as_mb(self) -> u64
        ensures { result ≡ self.0 / 2 ^ 20 }
    {
        self.0 / MIB
    }

    /// States that a text is read in one way only, and that a printed size is read back as that size. This is
    /// a law: it computes nothing.
    pub fn text_laws()
        ensures one_way { (text : List ℕ) (r s : Result ReadableSize SizeError) → IsReadAs text r
            → IsReadAs text s → r ≡ s }
        ensures printed { (n : ℕ) → n < 2 ^ 64 → IsSizeText (size_text n) n }
        ensures read_again { (n : ℕ) (r : Result ReadableSize SizeError) → n < 2 ^ 64
            → IsReadAs (size_text n) r → r ≡ Ok (record { 0 = n }) }
    {}

    /// Returns the number and the unit with which the size is printed. The unit is the largest one that
    /// divides the size, and `KiB` for the size 0.
    fn count_and_unit(self) -> (u64, &'static str)
        ensures text { size_text self.0 ≡ decimal result.0 ++ result.1.now }
        ensures unit { length result.1.now ≤ 3 }
    {
        let size = self.0;
        if size == 0 {
            (0, "KiB")
        } else if size % PIB == 0 {
            (size / PIB, "PiB")
        } else if size % TIB == 0 {
            (size / TIB, "TiB")
        } else if size % GIB == 0 {
            (size / GIB, "GiB")
        } else if size % MIB == 0 {
            (size / MIB, "MiB")
        } else if size % KIB == 0 {
            (size / KIB, "KiB")
        } else {
            (size, "B")
        }
    }
}

/// Divides a size by a number.
impl Div<u64> for ReadableSize {
    type Output = ReadableSize;

    ghost can_div = { λ size divisor. 0 < divisor };

    ghost div_gives = { λ size divisor r. r.0 ≡ size.0 / divisor };

    /// Returns the size divided by `rhs`, rounded down to whole bytes. `rhs` must be above 0.
    fn div(self, rhs: u64) -> ReadableSize {
        ReadableSize(self.0 / rhs)
    }
}

/// Divides a size by another size.
impl Div<ReadableSize> for ReadableSize {
    type Output = u64;

    ghost can_div = { λ size divisor. 0 < divisor.0 };

    ghost div_gives = { λ size divisor r. r ≡ size.0 / divisor.0 };

    /// Returns how many whole times the size `rhs` fits into this one. `rhs` must be above 0.
    fn div(self, rhs: ReadableSize) -> u64 {
        self.0 / rhs.0
    }
}

/// Multiplies a size by a number.
impl Mul<u64> for ReadableSize {
    type Output = ReadableSize;

    ghost can_mul = { λ size count. size.0 * count < 2 ^ 64 };

    ghost mul_gives = { λ size count r. r.0 ≡ size.0 * count };

    /// Returns the size times `rhs`. The product must be below 2^64 bytes.
    fn mul(self, rhs: u64) -> ReadableSize {
        ReadableSize(self.0 * rhs)
    }
}

/// Reads a number and a unit, such as `64MiB`, ` 0.5 PiB` or `1e+1MB`. White space may stand around either.
///
/// The unit is `B` or nothing for bytes; or `K`, `M`, `G`, `T` or `P`, alone or followed by `B` or `iB`, for
/// 2^10, 2^20, 2^30, 2^40 or 2^50 bytes.
impl FromStr for ReadableSize {
    type Err = SizeError;

    ghost from_str_gives = { IsReadAs };

    /// Returns the size that the text `s` stands for, rounded down to whole bytes: 0 if the number is
    /// negative, and 2^64 - 1 if the size would be larger.
    ///
    /// # Errors
    ///
    /// The first of `Empty`, `NotAscii`, `Unit`, `Number` and `Digits` that applies.
    fn from_str(s: &str) -> Result<ReadableSize, SizeError> {
        Ok(ReadableSize(parse_size(s)?))
    }
}

/// Prints the size in the largest unit that divides it.
impl fmt::Display for ReadableSize {
    ghost output = { λ size. Some (size_text size.0) };

    /// Prints the size in the largest unit that divides it, as `2KiB` or `1025B`, and 0 as `0KiB`.
    ///
    /// # Errors
    ///
    /// The writer's error.
    fn fmt<W: fmt::Write>(&self, f: &mut fmt::Formatter<W>) -> fmt::Result {
        let (count, unit) = self.count_and_unit();
        write!(f, "{count}{unit}")
    }
}

impl Described for ReadableSize {
    ghost writes = { λ size old new. Logs old new (text (size_text size.0)) };
}

/// Serializes the size as its text.
impl Serialize for ReadableSize {
    /// Writes the size to `out` as its text, such as `2KiB`.
    ///
    /// # Errors
    ///
    /// Those of `out`.
    fn serialize<S: Serializer>(&self, out: &mut S) -> Result<(), S::Error> {
        let (count, unit) = self.count_and_unit();
        let mut digits = Buffer::new();
        let text = InlineText::<TEXT_ROOM>::new()
            .and_str(digits.format(count), DIGITS)
            .and_str(unit, UNIT_LEN);
        out.str(text.as_str())
    }
}

/// Deserializes the size from a text.
impl<'de> Deserialize<'de> for ReadableSize {
    /// Reads a text from `from`, and returns the size that it stands for by
    /// [`from_str`](ReadableSize::from_str).
    ///
    /// # Errors
    ///
    /// Those of `from`; an error of its format with the text of the [`SizeError`], if the text stands for no
    /// size.
    fn deserialize<F: Format>(
        alloc: Global,
        from: &mut Deserializer<'de, '_, F>,
    ) -> Result<ReadableSize, F::Error>
        ensures { IfOk result (ReadsSize F.gives from.old from.new) }
    {
        ReadableSize::deserialize_owned(alloc, from)
    }
}

impl DeserializeOwned for ReadableSize {
    /// Reads a text from `from`, and returns the size that it stands for by
    /// [`from_str`](ReadableSize::from_str).
    ///
    /// # Errors
    ///
    /// Those of `from`; an error of its format with the text of the [`SizeError`], if the text stands for no
    /// size.
    fn deserialize_owned<F: Format>(
        alloc: Global,
        from: &mut Deserializer<'_, '_, F>,
    ) -> Result<ReadableSize, F::Error>
        ensures { IfOk result (ReadsSize F.gives from.old from.new) }
    {
        let text = String::deserialize_owned(alloc, from)?;
        match ReadableSize::from_str(text.as_str()) {
            Ok(size) => Ok(size),
            Err(e) => Err(from.custom(InlineText::<ERROR_ROOM>::of(e).as_str())),
        }
    }
}

/// Returns the size that a TOML value gives: a text with a unit, such as `64MiB`, or a whole number of bytes.
///
/// # Errors
///
/// For a text, those of [`from_str`](ReadableSize::from_str). `Kind` for a number below 0, or a value of any
/// other type.
pub fn size_from_value(value: &Value) -> Result<ReadableSize, SizeError>
    ensures { IsValueReadAs (view value.now) result }
{
    match value {
        Value::String(text) => text.as_str().parse(),
        Value::Integer(size) => match u64::try_from(*size) {
            Ok(size) => Ok(ReadableSize(size)),
            Err(_) => Err(SizeError::Kind),
        },
        _ => Err(SizeError::Kind),
    }
}
