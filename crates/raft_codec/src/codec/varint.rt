//! Numbers in base 128, as protobuf's varints: seven bits a byte, lowest bits first, the top bit set on all
//! bytes but the last. The seven bits of a byte are a *septet* here.

ghost use Rattle.std.specs.Prelude.{◌≡◌, ℕ, ◌+◌, ◌*◌, ◌%◌, ◌^◌, ◌<◌, ◌≤◌, ◌++◌, List, length, take, IfOk, IfErr, IfSome, IfNone, OnOk, OnErr, MatchBool, [], ◌∷◌};
ghost use Rattle.std.specs.Io.KnownBytes.{Appends, Keeps};
ghost use Rattle.raft_codec.specs.Errors.{IsIo};
ghost use Rattle.raft_codec.specs.Reading.{Reads, HasNoFront, HasOneFront};
ghost use Rattle.raft_codec.specs.Varint.{IsVarint, IsShortVarint, IsVarintFault, varint};

use crate::codec::{BytesSlice, Error, Result};
use std::alloc::AllocError;
use std::io;
use std::io::{ErrorKind, Write};

/// The most bytes that a 64-bit number takes in base 128.
pub const MAX_VAR_U64_LEN: usize = 10;

/// Reads a number in base 128 from the start of `buf`, and moves `buf` past it. A longer form than
/// `encode_var_u64` writes is read too, up to ten bytes. It allocates nothing.
///
/// # Errors
///
/// `Io` of the kind `UnexpectedEof` if the bytes end before the number does, or of the kind `InvalidData` if
/// the number has more than ten bytes or doesn't fit into 64 bits. `buf` is unchanged then.
#[inline(always)]
pub fn decode_var_u64(buf: &mut BytesSlice<'_>) -> Result<u64>
    ensures ok { IfOk result (Reads IsVarint buf.old.now buf.new.now) }
    ensures err { OnErr result (buf.new.now ≡ buf.old.now) }
    ensures refused { OnErr result (HasNoFront IsVarint buf.old.now) }
    ensures fault { IfErr result (IsVarintFault buf.old.now) }
{
    let (number, rest) = parse_var_u64(*buf)?;
    *buf = rest;
    Ok(number)
}

/// Reads a number in base 128 from the start of `bytes`, and returns it with the bytes after it. A longer
/// form than `encode_var_u64` writes is read too, up to ten bytes.
///
/// # Errors
///
/// `Io` of the kind `UnexpectedEof` if the bytes end before the number does, or of the kind `InvalidData` if
/// the number has more than ten bytes or doesn't fit into 64 bits.
#[inline(always)]
pub fn parse_var_u64(bytes: &[u8]) -> Result<(u64, &[u8])>
    ensures ok { IfOk result (λ read. Reads IsVarint bytes.now read.1.now read.0) }
    ensures refused { OnErr result (HasNoFront IsVarint bytes.now) }
    ensures fault { IfErr result (IsVarintFault bytes.now) }
{
    match parse_short_var_u64(bytes) {
        Some(read) => Ok(read),
        None => parse_septets(bytes),
    }
}

/// Reads a number in base 128 of at most four bytes, as most are, from the start of `bytes`, and returns it
/// with the bytes after it. Returns `None` if the number is longer, or the bytes end before it does.
#[doc(hidden)]
#[inline(always)]
pub fn parse_short_var_u64(bytes: &[u8]) -> Option<(u64, &[u8])>
    ensures some { IfSome result (λ read. Reads IsShortVarint bytes.now read.1.now read.0) }
    ensures none { IfNone result (HasNoFront IsShortVarint bytes.now) }
{
    match bytes {
        [first, rest @ ..] if *first < 0x80 => Some((u64::from(*first), rest)),
        [first, second, rest @ ..] if *second < 0x80 => {
            Some((two_septets(*first, *second), rest))
        }
        [first, second, third, rest @ ..] if *third < 0x80 => {
            Some((
                two_septets(*first, *second) + (u64::from(*third) << 14),
                rest,
            ))
        }
        [first, second, third, fourth, rest @ ..] if *fourth < 0x80 => {
            Some((
                two_septets(*first, *second) + (two_septets(*third, *fourth) << 14),
                rest,
            ))
        }
        _ => None,
    }
}

/// Returns the number whose lower seven bits are those of `first` and whose next seven bits are those of
/// `second`. The top bit of each byte is ignored.
#[inline(always)]
fn two_septets(first: u8, second: u8) -> u64
    ensures { result ≡ first % 128 + 128 * (second % 128) }
{
    u64::from(first % 0x80) + (u64::from(second % 0x80) << 7)
}

/// Reads a number in base 128 of any length from the start of `bytes`, byte by byte, and returns it with the
/// bytes after it.
///
/// # Errors
///
/// `Io` of the kind `UnexpectedEof` if the bytes end before the number does, or of the kind `InvalidData` if
/// the number has more than ten bytes or doesn't fit into 64 bits.
#[inline(never)]
fn parse_septets(bytes: &[u8]) -> Result<(u64, &[u8])>
    ensures ok { IfOk result (λ read. Reads IsVarint bytes.now read.1.now read.0) }
    ensures refused { OnErr result (HasNoFront IsVarint bytes.now) }
    ensures fault { IfErr result (IsVarintFault bytes.now) }
{
    let mut number = 0;
    for i in 0..bytes.len().min(MAX_VAR_U64_LEN) {
        let byte = bytes[i];
        if i == MAX_VAR_U64_LEN - 1 && byte > 1 {
            return Err(Error::Io(io::Error::new(ErrorKind::InvalidData, "overflow")));
        }
        number += septet_value(byte % 0x80, i);
        if byte < 0x80 {
            return Ok((number, &bytes[i + 1..]));
        }
    }
    Err(Error::unexpected_eof())
}

/// Returns the value of the septet `bits` as the byte number `place` of a number in base 128, counted from 0:
/// `bits` times 128^`place`.
#[inline]
fn septet_value(bits: u8, place: usize) -> u64
    requires septet { bits < 128 }
    requires place { place < 10 }
    requires tenth { place ≡ 9 → bits ≤ 1 }
    ensures { result ≡ bits * 128 ^ place }
{
    u64::from(bits) << (7 * place)
}

/// Writes `number` in base 128, in its shortest form, to the start of `bytes`, and returns how many bytes
/// that takes. The bytes after it stay as they are.
#[inline]
pub(crate) fn put_var_u64(bytes: &mut [u8; 10], number: u64) -> usize
    ensures written { take result bytes.new ≡ varint number }
    ensures bound { result ≤ 10 }
{
    let mut rest = number;
    for i in 0..MAX_VAR_U64_LEN - 1 {
        if rest < 0x80 {
            bytes[i] = rest as u8;
            return i + 1;
        }
        bytes[i] = (rest % 0x80) as u8 + 0x80;
        rest /= 0x80;
    }
    bytes[MAX_VAR_U64_LEN - 1] = rest as u8;
    MAX_VAR_U64_LEN
}

/// Writes one byte, and returns whether the writer took it. It returns false if the writer took nothing or
/// was interrupted; the byte can be written again then.
///
/// # Errors
///
/// `Io` if the writer fails.
pub(crate) fn write_byte<W: Write>(writer: &mut W, byte: u8) -> Result<bool>
    ensures written { IfOk result (λ written. MatchBool written
        (Appends (W.contents writer.old) (W.contents writer.new) (byte ∷ []))
        (Keeps (W.contents writer.old) (W.contents writer.new))) }
    ensures io { IfErr result IsIo }
{
    match writer.write(&[byte]) {
        Ok(count) => Ok(count == 1),
        Err(e) if e.kind() == ErrorKind::Interrupted => Ok(false),
        Err(e) => Err(Error::Io(e)),
    }
}

/// Appends `number` in base 128 to `buf`, in its shortest form: 300 is `ac 02`.
///
/// # Errors
///
/// `AllocError` if there is no memory to grow `buf`, which is unchanged then.
#[doc(hidden)]
#[inline]
pub fn append_var_u64(buf: &mut Vec<u8>, number: u64) -> std::result::Result<(), AllocError>
    ensures ok { OnOk result (buf.new.items ≡ buf.old.items ++ varint number) }
    ensures err { OnErr result (buf.new.items ≡ buf.old.items) }
{
    // Most numbers are this short, and bytes of a known count are quickly appended.
    if number < 0x80 {
        buf.push(number as u8)?;
        return Ok(());
    }
    if number < 0x4000 {
        return buf.extend_from_slice(&encode_in_two_bytes(number));
    }
    if number < 0x20_0000 {
        return buf.extend_from_slice(&encode_in_three_bytes(number));
    }
    if number < 0x1000_0000 {
        return buf.extend_from_slice(&encode_in_four_bytes(number));
    }
    let mut bytes = [0; MAX_VAR_U64_LEN];
    let len = put_var_u64(&mut bytes, number);
    buf.extend_from_slice(&bytes[..len])
}

/// Returns `number`, which is from 2^7 to 2^14 - 1, in base 128.
fn encode_in_two_bytes(number: u64) -> [u8; 2]
    requires least { 128 ≤ number }
    requires below { number < 16384 }
    ensures { result ≡ varint number }
{
    [continued_septet(number), (number >> 7) as u8]
}

/// Returns `number`, which is from 2^14 to 2^21 - 1, in base 128.
fn encode_in_three_bytes(number: u64) -> [u8; 3]
    requires least { 16384 ≤ number }
    requires below { number < 2097152 }
    ensures { result ≡ varint number }
{
    [
        continued_septet(number),
        continued_septet(number >> 7),
        (number >> 14) as u8,
    ]
}

/// Returns `number`, which is from 2^21 to 2^28 - 1, in base 128.
fn encode_in_four_bytes(number: u64) -> [u8; 4]
    requires least { 2097152 ≤ number }
    requires below { number < 268435456 }
    ensures { result ≡ varint number }
{
    [
        continued_septet(number),
        continued_septet(number >> 7),
        continued_septet(number >> 14),
        (number >> 21) as u8,
    ]
}

/// Returns the byte with the lowest seven bits of `number` and the top bit set, which says that another byte
/// follows.
fn continued_septet(number: u64) -> u8
    ensures { result ≡ number % 128 + 128 }
{
    (number % 0x80) as u8 + 0x80
}

/// States that what the encoder writes of a number stands for that number, in the fewest bytes, and that no
/// encoding is a prefix of another. So a number that was written is read back, whatever bytes follow it. This
/// is a law: it computes nothing.
pub fn varint_is_read_again()
    ensures spelled { (n : ℕ) → n < 2 ^ 64 → IsVarint (varint n) n }
    ensures shortest { (n : ℕ) (bytes : List ℕ) → n < 2 ^ 64 → IsVarint bytes n →
        length (varint n) ≤ length bytes }
    ensures one_front { HasOneFront IsVarint }
{}
