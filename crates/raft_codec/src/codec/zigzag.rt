//! Signed numbers in base 128, as protobuf's `sint64`: the varint of a *zigzag code*, which is small if the
//! number is near 0.

ghost use Rattle.std.specs.Prelude.{◌≡◌, ℕ, ◌≤◌, ℤ, List, length, IfOk, IfErr, OnErr, FitsSigned};
ghost use Rattle.std.specs.Int.{w64};
ghost use Rattle.raft_codec.specs.Reading.{Reads, HasNoFront, HasOneFront};
ghost use Rattle.raft_codec.specs.Varint.{IsVarintFault, varint};
ghost use Rattle.raft_codec.specs.Zigzag.{IsVarI64, zigzag};

use crate::codec::varint::decode_var_u64;
use crate::codec::{BytesSlice, Result};

/// Reads a signed number in the form of `encode_var_i64` from the start of `buf`, and moves `buf` past it. A
/// longer form than `encode_var_i64` writes is read too, up to ten bytes. It allocates nothing.
///
/// # Errors
///
/// `Io` of the kind `UnexpectedEof` if the bytes end before the number does, or of the kind `InvalidData` if
/// it has more than ten bytes or its code doesn't fit into 64 bits. `buf` is unchanged then.
#[inline]
pub fn decode_var_i64(buf: &mut BytesSlice<'_>) -> Result<i64>
    ensures ok { IfOk result (Reads IsVarI64 buf.old.now buf.new.now) }
    ensures err { OnErr result (buf.new.now ≡ buf.old.now) }
    ensures refused { OnErr result (HasNoFront IsVarI64 buf.old.now) }
    ensures fault { IfErr result (IsVarintFault buf.old.now) }
{
    let code = decode_var_u64(buf)?;
    Ok(from_zigzag(code))
}

/// Returns the zigzag code of `number`: `2n` if the number n is at least 0, and `-2n - 1` if it is negative.
/// So 0, -1, 1, -2 have the codes 0, 1, 2, 3.
#[inline]
pub(crate) fn to_zigzag(number: i64) -> u64
    ensures { result ≡ zigzag number }
{
    let doubled = number.cast_unsigned() << 1;
    if number < 0 { !doubled } else { doubled }
}

/// Returns the number whose zigzag code ([`to_zigzag`]) is `code`.
#[inline]
fn from_zigzag(code: u64) -> i64
    ensures { zigzag result ≡ code }
{
    let half = (code >> 1) as i64;
    if code & 1 == 0 { half } else { !half }
}

/// States that what `encode_var_i64` writes of a number stands for that number, in the fewest bytes, and that
/// no encoding is a prefix of another. So a number that was written is read back, whatever bytes follow it.
/// This is a law: it computes nothing.
pub fn var_i64_is_read_again()
    ensures spelled { (z : ℤ) → FitsSigned w64 z → IsVarI64 (varint (zigzag z)) z }
    ensures shortest { (z : ℤ) (bytes : List ℕ) → FitsSigned w64 z → IsVarI64 bytes z →
        length (varint (zigzag z)) ≤ length bytes }
    ensures one_front { HasOneFront IsVarI64 }
{}
