//! Decoders of numbers with a fixed number of bytes.

ghost use Rattle.std.specs.Prelude.{◌≡◌, ℕ, ◌^◌, ◌<◌, ℤ, pos, ◌+ℤ◌, FitsSigned, ◌↔◌, [], ◌∷◌, ◌++◌, length, IfOk, IfErr, IsErr, OnErr};
ghost use Rattle.std.specs.declared.io.ErrorKind.TheVariants.{UnexpectedEof};
ghost use Rattle.std.specs.Int.{w32, w64};
ghost use Rattle.std.specs.Ordering.{nat_cmp, int_cmp};
ghost use Rattle.byteorder.specs.Endian.{big_bytes, little_bytes};
ghost use Rattle.raft_codec.specs.Errors.{IsIoOf};
ghost use Rattle.raft_codec.specs.Reading.{Reads};
ghost use Rattle.raft_codec.specs.Fixed.{IsBig, IsLittle, IsU64Desc, IsI64, IsI64Desc, IsSignedLittle, IsReadAgain, OrdersAs, sign_flipped, u64_desc_bytes, i64_bytes, i64_desc_bytes, signed_le_bytes};

use crate::codec::{BytesSlice, Error, Result};

/// The sign bit of an `i64` in two's complement.
pub(crate) const SIGN_BIT: u64 = 1 << 63;

/// Returns the first `N` bytes of `buf`, and moves `buf` past them.
///
/// # Errors
///
/// `Io` of the kind `UnexpectedEof` if there are fewer. `buf` is unchanged then.
#[inline]
fn take_front<const N: usize>(buf: &mut BytesSlice<'_>) -> Result<[u8; N]>
    ensures ok { IfOk result (λ front. buf.old.now ≡ front ++ buf.new.now) }
    ensures err { OnErr result (buf.new.now ≡ buf.old.now) }
    ensures refused { IsErr result ↔ (length buf.old.now < N) }
    ensures fault { IfErr result (λ e. IsIoOf e UnexpectedEof) }
{
    match buf.split_first_chunk::<N>() {
        Some((front, rest)) => {
            let front = *front;
            *buf = rest;
            Ok(front)
        }
        None => Err(Error::unexpected_eof()),
    }
}

/// Returns the first byte of `buf`, and moves `buf` past it.
///
/// # Errors
///
/// `Io` of the kind `UnexpectedEof` if `buf` is empty.
#[inline]
pub fn read_u8(buf: &mut BytesSlice<'_>) -> Result<u8>
    ensures ok { IfOk result (λ byte. buf.old.now ≡ byte ∷ buf.new.now) }
    ensures err { OnErr result (buf.new.now ≡ buf.old.now) }
    ensures refused { IsErr result ↔ (buf.old.now ≡ []) }
    ensures fault { IfErr result (λ e. IsIoOf e UnexpectedEof) }
{
    match buf.split_first() {
        Some((byte, rest)) => {
            *buf = rest;
            Ok(*byte)
        }
        None => Err(Error::unexpected_eof()),
    }
}

/// Reads a big-endian number of eight bytes from the start of `buf`, and moves `buf` past it.
///
/// # Errors
///
/// `Io` of the kind `UnexpectedEof` if there are fewer than eight bytes. `buf` is unchanged then.
#[inline]
pub fn decode_u64(buf: &mut BytesSlice<'_>) -> Result<u64>
    ensures ok { IfOk result (Reads (IsBig 8) buf.old.now buf.new.now) }
    ensures err { OnErr result (buf.new.now ≡ buf.old.now) }
    ensures refused { IsErr result ↔ (length buf.old.now < 8) }
    ensures fault { IfErr result (λ e. IsIoOf e UnexpectedEof) }
{
    let bytes = take_front(buf)?;
    Ok(u64::from_be_bytes(bytes))
}

/// Reads a big-endian number of four bytes from the start of `buf`, and moves `buf` past it.
///
/// # Errors
///
/// `Io` of the kind `UnexpectedEof` if there are fewer than four bytes. `buf` is unchanged then.
#[inline]
#[tactic(auto, using(crate::proofs::FixedLemmas::reads_big_4))]
pub fn decode_u32(buf: &mut BytesSlice<'_>) -> Result<u32>
    ensures ok { IfOk result (Reads (IsBig 4) buf.old.now buf.new.now) }
    ensures err { OnErr result (buf.new.now ≡ buf.old.now) }
    ensures refused { IsErr result ↔ (length buf.old.now < 4) }
    ensures fault { IfErr result (λ e. IsIoOf e UnexpectedEof) }
{
    let bytes = take_front(buf)?;
    Ok(u32::from_be_bytes(bytes))
}

/// Reads a big-endian number of two bytes from the start of `buf`, and moves `buf` past it.
///
/// # Errors
///
/// `Io` of the kind `UnexpectedEof` if there are fewer than two bytes. `buf` is unchanged then.
#[inline]
#[tactic(auto, using(crate::proofs::FixedLemmas::reads_big_2))]
pub fn decode_u16(buf: &mut BytesSlice<'_>) -> Result<u16>
    ensures ok { IfOk result (Reads (IsBig 2) buf.old.now buf.new.now) }
    ensures err { OnErr result (buf.new.now ≡ buf.old.now) }
    ensures refused { IsErr result ↔ (length buf.old.now < 2) }
    ensures fault { IfErr result (λ e. IsIoOf e UnexpectedEof) }
{
    let bytes = take_front(buf)?;
    Ok(u16::from_be_bytes(bytes))
}

/// Reads eight bytes from the start of `buf` as a number in the form of
/// [`NumberEncoder::encode_u64_desc`](crate::codec::NumberEncoder::encode_u64_desc), and moves `buf` past
/// them: the complement of a big-endian number. Any eight bytes are such a number.
///
/// # Errors
///
/// `Io` of the kind `UnexpectedEof` if there are fewer than eight bytes. `buf` is unchanged then.
#[inline]
pub fn decode_u64_desc(buf: &mut BytesSlice<'_>) -> Result<u64>
    ensures ok { IfOk result (Reads IsU64Desc buf.old.now buf.new.now) }
    ensures err { OnErr result (buf.new.now ≡ buf.old.now) }
    ensures refused { IsErr result ↔ (length buf.old.now < 8) }
    ensures fault { IfErr result (λ e. IsIoOf e UnexpectedEof) }
{
    let complement = decode_u64(buf)?;
    Ok(!complement)
}

/// Reads eight bytes from the start of `buf` as a number in the form of
/// [`NumberEncoder::encode_i64`](crate::codec::NumberEncoder::encode_i64), and moves `buf` past them: two's
/// complement with the sign bit flipped, big-endian. Any eight bytes are such a number.
///
/// # Errors
///
/// `Io` of the kind `UnexpectedEof` if there are fewer than eight bytes. `buf` is unchanged then.
#[inline]
pub fn decode_i64(buf: &mut BytesSlice<'_>) -> Result<i64>
    ensures ok { IfOk result (Reads IsI64 buf.old.now buf.new.now) }
    ensures err { OnErr result (buf.new.now ≡ buf.old.now) }
    ensures refused { IsErr result ↔ (length buf.old.now < 8) }
    ensures fault { IfErr result (λ e. IsIoOf e UnexpectedEof) }
{
    let flipped = decode_u64(buf)?;
    Ok((flipped ^ SIGN_BIT).cast_signed())
}

/// Reads eight bytes from the start of `buf` as a number in the form of
/// [`NumberEncoder::encode_i64_desc`](crate::codec::NumberEncoder::encode_i64_desc), and moves `buf` past
/// them: the complement of the bytes that [`decode_i64`] reads. Any eight bytes are such a number.
///
/// # Errors
///
/// `Io` of the kind `UnexpectedEof` if there are fewer than eight bytes. `buf` is unchanged then.
#[inline]
pub fn decode_i64_desc(buf: &mut BytesSlice<'_>) -> Result<i64>
    ensures ok { IfOk result (Reads IsI64Desc buf.old.now buf.new.now) }
    ensures err { OnErr result (buf.new.now ≡ buf.old.now) }
    ensures refused { IsErr result ↔ (length buf.old.now < 8) }
    ensures fault { IfErr result (λ e. IsIoOf e UnexpectedEof) }
{
    let flipped = decode_u64_desc(buf)?;
    Ok((flipped ^ SIGN_BIT).cast_signed())
}

/// Reads a little-endian number of two bytes from the start of `buf`, and moves `buf` past it.
///
/// # Errors
///
/// `Io` of the kind `UnexpectedEof` if there are fewer than two bytes. `buf` is unchanged then.
#[inline]
#[tactic(auto, using(crate::proofs::FixedLemmas::reads_little_2))]
pub fn decode_u16_le(buf: &mut BytesSlice<'_>) -> Result<u16>
    ensures ok { IfOk result (Reads (IsLittle 2) buf.old.now buf.new.now) }
    ensures err { OnErr result (buf.new.now ≡ buf.old.now) }
    ensures refused { IsErr result ↔ (length buf.old.now < 2) }
    ensures fault { IfErr result (λ e. IsIoOf e UnexpectedEof) }
{
    let bytes = take_front(buf)?;
    Ok(u16::from_le_bytes(bytes))
}

/// Reads a little-endian number of four bytes from the start of `buf`, and moves `buf` past it.
///
/// # Errors
///
/// `Io` of the kind `UnexpectedEof` if there are fewer than four bytes. `buf` is unchanged then.
#[inline]
#[tactic(auto, using(crate::proofs::FixedLemmas::reads_little_4))]
pub fn decode_u32_le(buf: &mut BytesSlice<'_>) -> Result<u32>
    ensures ok { IfOk result (Reads (IsLittle 4) buf.old.now buf.new.now) }
    ensures err { OnErr result (buf.new.now ≡ buf.old.now) }
    ensures refused { IsErr result ↔ (length buf.old.now < 4) }
    ensures fault { IfErr result (λ e. IsIoOf e UnexpectedEof) }
{
    let bytes = take_front(buf)?;
    Ok(u32::from_le_bytes(bytes))
}

/// Reads a little-endian number of eight bytes from the start of `buf`, and moves `buf` past it.
///
/// # Errors
///
/// `Io` of the kind `UnexpectedEof` if there are fewer than eight bytes. `buf` is unchanged then.
#[inline]
pub fn decode_u64_le(buf: &mut BytesSlice<'_>) -> Result<u64>
    ensures ok { IfOk result (Reads (IsLittle 8) buf.old.now buf.new.now) }
    ensures err { OnErr result (buf.new.now ≡ buf.old.now) }
    ensures refused { IsErr result ↔ (length buf.old.now < 8) }
    ensures fault { IfErr result (λ e. IsIoOf e UnexpectedEof) }
{
    let bytes = take_front(buf)?;
    Ok(u64::from_le_bytes(bytes))
}

/// Reads a little-endian number of four bytes, in two's complement, from the start of `buf`, and moves `buf`
/// past it.
///
/// # Errors
///
/// `Io` of the kind `UnexpectedEof` if there are fewer than four bytes. `buf` is unchanged then.
#[inline]
pub fn decode_i32_le(buf: &mut BytesSlice<'_>) -> Result<i32>
    ensures ok { IfOk result (Reads (IsSignedLittle w32) buf.old.now buf.new.now) }
    ensures err { OnErr result (buf.new.now ≡ buf.old.now) }
    ensures refused { IsErr result ↔ (length buf.old.now < 4) }
    ensures fault { IfErr result (λ e. IsIoOf e UnexpectedEof) }
{
    let bits = decode_u32_le(buf)?;
    Ok(bits.cast_signed())
}

/// Reads a little-endian number of eight bytes, in two's complement, from the start of `buf`, and moves `buf`
/// past it.
///
/// # Errors
///
/// `Io` of the kind `UnexpectedEof` if there are fewer than eight bytes. `buf` is unchanged then.
#[inline]
pub fn decode_i64_le(buf: &mut BytesSlice<'_>) -> Result<i64>
    ensures ok { IfOk result (Reads (IsSignedLittle w64) buf.old.now buf.new.now) }
    ensures err { OnErr result (buf.new.now ≡ buf.old.now) }
    ensures refused { IsErr result ↔ (length buf.old.now < 8) }
    ensures fault { IfErr result (λ e. IsIoOf e UnexpectedEof) }
{
    let bits = decode_u64_le(buf)?;
    Ok(bits.cast_signed())
}

/// States that each fixed-width encoding of a number decodes to that number, whatever bytes follow it. This
/// is a law: it computes nothing.
pub fn fixed_is_read_again()
    ensures big { (width : ℕ) → IsReadAgain width (λ x. x < 256 ^ width) (big_bytes width) }
    ensures little { (width : ℕ) → IsReadAgain width (λ x. x < 256 ^ width) (little_bytes width) }
    ensures u64_desc { IsReadAgain 8 (λ x. x < 2 ^ 64) u64_desc_bytes }
    ensures i64 { IsReadAgain 8 (FitsSigned w64) i64_bytes }
    ensures i64_desc { IsReadAgain 8 (FitsSigned w64) i64_desc_bytes }
    ensures i32_le { IsReadAgain 4 (FitsSigned w32) (signed_le_bytes w32) }
    ensures i64_le { IsReadAgain 8 (FitsSigned w64) (signed_le_bytes w64) }
{}

/// States how encoded numbers sort, compared byte by byte. Big-endian numbers sort as the numbers do, and so
/// do the bytes of `encode_i64`. Those of `encode_u64_desc` and `encode_i64_desc` sort in descending order.
/// The bytes of `encode_i64` are the big-endian bytes of the number plus 2^63. This is a law: it computes
/// nothing.
pub fn bytes_order_as_numbers()
    ensures big { (width : ℕ) → OrdersAs nat_cmp (λ x. x < 256 ^ width) (big_bytes width) }
    ensures u64_desc { OrdersAs (λ x y. nat_cmp y x) (λ x. x < 2 ^ 64) u64_desc_bytes }
    ensures i64 { OrdersAs int_cmp (FitsSigned w64) i64_bytes }
    ensures i64_desc { OrdersAs (λ x y. int_cmp y x) (FitsSigned w64) i64_desc_bytes }
    ensures distance { (z : ℤ) → FitsSigned w64 z → pos (sign_flipped z) ≡ z +ℤ pos (2 ^ 63) }
{}
