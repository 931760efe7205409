//! Codecs of numbers, which `raft_base` exports.
//!
//! Each function pins names or types: it compiles only as long as these are there as it writes them. None is called for
//! its effect, but where the test at the end says so.

use raft_base::codec::{
    BytesSlice, Error, NumberEncoder, Result, append_var_u64, decode_i32_le, decode_i64,
    decode_i64_desc, decode_i64_le, decode_u16, decode_u16_le, decode_u32, decode_u32_le,
    decode_u64, decode_u64_desc, decode_u64_le, decode_var_i64, decode_var_u64,
    parse_short_var_u64, parse_var_u64, read_u8,
};
use raft_base::{AllocResult, codec};
use std::io;

/// Returns the bytes that decoders read from as a plain slice.
fn bytes_of<'a>(bytes: BytesSlice<'a>) -> &'a [u8] {
    bytes
}

/// Compiles only for a type that implements `io::Write`.
fn is_writer<W: io::Write>() {}

/// Compiles only if every `NumberEncoder` is a writer.
fn is_encoder<W: NumberEncoder>() {
    is_writer::<W>();
}

/// Compiles only as long as `read_u8` takes `bytes`, and returns `Result<u8>`.
fn read_u8_of_fixed_decoders(bytes: &mut BytesSlice<'_>) -> Result<u8> {
    read_u8(bytes)
}

/// Compiles only as long as `decode_u64` takes `bytes`, and returns `Result<u64>`.
fn decode_u64_of_fixed_decoders(bytes: &mut BytesSlice<'_>) -> Result<u64> {
    decode_u64(bytes)
}

/// Compiles only as long as `decode_u32` takes `bytes`, and returns `Result<u32>`.
fn decode_u32_of_fixed_decoders(bytes: &mut BytesSlice<'_>) -> Result<u32> {
    decode_u32(bytes)
}

/// Compiles only as long as `decode_u16` takes `bytes`, and returns `Result<u16>`.
fn decode_u16_of_fixed_decoders(bytes: &mut BytesSlice<'_>) -> Result<u16> {
    decode_u16(bytes)
}

/// Compiles only as long as `decode_u64_desc` takes `bytes`, and returns `Result<u64>`.
fn decode_u64_desc_of_fixed_decoders(bytes: &mut BytesSlice<'_>) -> Result<u64> {
    decode_u64_desc(bytes)
}

/// Compiles only as long as `decode_i64` takes `bytes`, and returns `Result<i64>`.
fn decode_i64_of_fixed_decoders(bytes: &mut BytesSlice<'_>) -> Result<i64> {
    decode_i64(bytes)
}

/// Compiles only as long as `decode_i64_desc` takes `bytes`, and returns `Result<i64>`.
fn decode_i64_desc_of_fixed_decoders(bytes: &mut BytesSlice<'_>) -> Result<i64> {
    decode_i64_desc(bytes)
}

/// Compiles only as long as `decode_u16_le` takes `bytes`, and returns `Result<u16>`.
fn decode_u16_le_of_fixed_decoders(bytes: &mut BytesSlice<'_>) -> Result<u16> {
    decode_u16_le(bytes)
}

/// Compiles only as long as `decode_u32_le` takes `bytes`, and returns `Result<u32>`.
fn decode_u32_le_of_fixed_decoders(bytes: &mut BytesSlice<'_>) -> Result<u32> {
    decode_u32_le(bytes)
}

/// Compiles only as long as `decode_u64_le` takes `bytes`, and returns `Result<u64>`.
fn decode_u64_le_of_fixed_decoders(bytes: &mut BytesSlice<'_>) -> Result<u64> {
    decode_u64_le(bytes)
}

/// Compiles only as long as `decode_i32_le` takes `bytes`, and returns `Result<i32>`.
fn decode_i32_le_of_fixed_decoders(bytes: &mut BytesSlice<'_>) -> Result<i32> {
    decode_i32_le(bytes)
}

/// Compiles only as long as `decode_i64_le` takes `bytes`, and returns `Result<i64>`.
fn decode_i64_le_of_fixed_decoders(bytes: &mut BytesSlice<'_>) -> Result<i64> {
    decode_i64_le(bytes)
}

/// Compiles only as long as `append_var_u64` has this type.
fn varint_decoders() {
    let _append_var_u64: fn(&mut Vec<u8>, u64) -> AllocResult<()> = append_var_u64;
}

/// Compiles only as long as `decode_var_u64` takes `bytes`, and returns `Result<u64>`.
fn decode_var_u64_of_varint_decoders(bytes: &mut BytesSlice<'_>) -> Result<u64> {
    decode_var_u64(bytes)
}

/// Compiles only as long as `decode_var_i64` takes `bytes`, and returns `Result<i64>`.
fn decode_var_i64_of_varint_decoders(bytes: &mut BytesSlice<'_>) -> Result<i64> {
    decode_var_i64(bytes)
}

/// Compiles only as long as `parse_var_u64` takes `value`, and returns `Result<(u64, &[u8])>`.
fn parse_var_u64_of_varint_decoders<'a>(value: &'a [u8]) -> Result<(u64, &'a [u8])> {
    parse_var_u64(value)
}

/// Compiles only as long as `parse_short_var_u64` takes `value`, and returns `Option<(u64, &[u8])>`.
fn parse_short_var_u64_of_varint_decoders<'a>(value: &'a [u8]) -> Option<(u64, &'a [u8])> {
    parse_short_var_u64(value)
}

/// Compiles only as long as each `io::Write` has `encode_u64`, which takes a `u64`.
fn encode_u64_of_encoders<W: io::Write>(writer: &mut W, number: u64) -> Result<()> {
    W::encode_u64(writer, number)
}

/// Compiles only as long as each `io::Write` has `encode_u32`, which takes a `u32`.
fn encode_u32_of_encoders<W: io::Write>(writer: &mut W, number: u32) -> Result<()> {
    W::encode_u32(writer, number)
}

/// Compiles only as long as each `io::Write` has `encode_u16`, which takes a `u16`.
fn encode_u16_of_encoders<W: io::Write>(writer: &mut W, number: u16) -> Result<()> {
    W::encode_u16(writer, number)
}

/// Compiles only as long as each `io::Write` has `encode_u64_desc`, which takes a `u64`.
fn encode_u64_desc_of_encoders<W: io::Write>(writer: &mut W, number: u64) -> Result<()> {
    W::encode_u64_desc(writer, number)
}

/// Compiles only as long as each `io::Write` has `encode_i64`, which takes an `i64`.
fn encode_i64_of_encoders<W: io::Write>(writer: &mut W, number: i64) -> Result<()> {
    W::encode_i64(writer, number)
}

/// Compiles only as long as each `io::Write` has `encode_i64_desc`, which takes an `i64`.
fn encode_i64_desc_of_encoders<W: io::Write>(writer: &mut W, number: i64) -> Result<()> {
    W::encode_i64_desc(writer, number)
}

/// Compiles only as long as each `io::Write` has `encode_u16_le`, which takes a `u16`.
fn encode_u16_le_of_encoders<W: io::Write>(writer: &mut W, number: u16) -> Result<()> {
    W::encode_u16_le(writer, number)
}

/// Compiles only as long as each `io::Write` has `encode_u32_le`, which takes a `u32`.
fn encode_u32_le_of_encoders<W: io::Write>(writer: &mut W, number: u32) -> Result<()> {
    W::encode_u32_le(writer, number)
}

/// Compiles only as long as each `io::Write` has `encode_u64_le`, which takes a `u64`.
fn encode_u64_le_of_encoders<W: io::Write>(writer: &mut W, number: u64) -> Result<()> {
    W::encode_u64_le(writer, number)
}

/// Compiles only as long as each `io::Write` has `encode_i32_le`, which takes an `i32`.
fn encode_i32_le_of_encoders<W: io::Write>(writer: &mut W, number: i32) -> Result<()> {
    W::encode_i32_le(writer, number)
}

/// Compiles only as long as each `io::Write` has `encode_i64_le`, which takes an `i64`.
fn encode_i64_le_of_encoders<W: io::Write>(writer: &mut W, number: i64) -> Result<()> {
    W::encode_i64_le(writer, number)
}

/// Compiles only as long as each `io::Write` has `encode_var_u64`, which takes a `u64`.
fn encode_var_u64_of_encoders<W: io::Write>(writer: &mut W, number: u64) -> Result<()> {
    W::encode_var_u64(writer, number)
}

/// Compiles only as long as each `io::Write` has `encode_var_i64`, which takes an `i64`.
fn encode_var_i64_of_encoders<W: io::Write>(writer: &mut W, number: i64) -> Result<()> {
    W::encode_var_i64(writer, number)
}

/// Returns a word for each error of a codec. The match names every variant.
fn word_of(error: &Error) -> &'static str {
    match error {
        Error::Io(_) => "io",
        Error::KeyLength => "key length",
        Error::KeyPadding => "key padding",
        Error::KeyNotFound => "key not found",
    }
}

/// Returns the result of a read, under both names of its type.
///
/// # Errors
///
/// That of the read.
fn read_with(number: Result<u64>) -> std::result::Result<u64, codec::Error> {
    number
}

/// Returns the error of a reader or a writer, if that is the reason.
fn io_of(error: Error) -> Option<io::Error> {
    match error {
        Error::Io(io) => Some(io),
        _ => None,
    }
}

/// Tests that the names above are exported with these types, and that what they give is as it is written here.
#[test]
fn numbers_are_handed_on(rt: HostRuntime) {
    varint_decoders();
    is_encoder::<Vec<u8>>();
    assert!(rt; bytes_of(b"7".as_slice()) == b"7".as_slice());
    let eof: codec::Error = Error::unexpected_eof();
    assert!(rt; word_of(&eof) == "io" && io_of(eof).is_some());
    assert!(rt; matches!(read_with(Ok(7)), Ok(7)));
}
