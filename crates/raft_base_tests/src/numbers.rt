//! Tests that numbers are written and read as the rows say.

mod rows;

use byteorder::{BigEndian, ByteOrder};
use raft_base::codec;
use raft_base::codec::{
    Error, NumberEncoder, decode_i32_le, decode_i64, decode_i64_desc, decode_i64_le, decode_u16,
    decode_u16_le, decode_u32, decode_u32_le, decode_u64, decode_u64_desc, decode_u64_le,
    decode_var_i64, decode_var_u64, read_u8,
};
use rows::{
    LongRow, ShortRow, SignedRow, fault_rows, long_rows, prefix_rows, short_rows,
    short_signed_rows, signed_rows, spelling_rows,
};
use std::io;
use std::io::{ErrorKind, Write};

/// Returns the numbers in three times eight bytes, each with its highest byte first.
fn decode_three_u64(bytes: &[u8; 24]) -> (u64, u64, u64) {
    (
        BigEndian::read_u64(&bytes[0..8]),
        BigEndian::read_u64(&bytes[8..16]),
        BigEndian::read_u64(&bytes[16..24]),
    )
}

/// Writes a number with its highest byte first, in descending order, and with its lowest byte first.
///
/// # Errors
///
/// `Io` if `out` has less than 24 bytes.
fn write_u64_in_three_ways(number: u64, mut out: &mut [u8]) -> codec::Result<()> {
    out.encode_u64(number)?;
    out.encode_u64_desc(number)?;
    out.encode_u64_le(number)
}

/// Reads the three numbers that [`write_u64_in_three_ways`] writes.
///
/// # Errors
///
/// `Io` if `buf` has less than 24 bytes.
fn read_u64_in_three_ways(mut buf: &[u8]) -> codec::Result<(u64, u64, u64)> {
    Ok((
        decode_u64(&mut buf)?,
        decode_u64_desc(&mut buf)?,
        decode_u64_le(&mut buf)?,
    ))
}

/// Tests whether the numbers of a row are written as its bytes, and read back from them.
///
/// # Errors
///
/// Those of writing or reading the numbers, for which there is room.
fn u64_row_holds(row: LongRow) -> codec::Result<bool> {
    let (number, ascending, descending, lowest_first) = row;
    let mut bytes = [0; 24];
    write_u64_in_three_ways(number, &mut bytes)?;
    Ok(
        decode_three_u64(&bytes) == (ascending, descending, lowest_first)
            && read_u64_in_three_ways(&bytes)? == (number, number, number),
    )
}

/// Writes a signed number with its highest byte first, in descending order, and with its lowest byte first.
///
/// # Errors
///
/// `Io` if `out` has less than 24 bytes.
fn write_i64_in_three_ways(number: i64, mut out: &mut [u8]) -> codec::Result<()> {
    out.encode_i64(number)?;
    out.encode_i64_desc(number)?;
    out.encode_i64_le(number)
}

/// Reads the three numbers that [`write_i64_in_three_ways`] writes.
///
/// # Errors
///
/// `Io` if `buf` has less than 24 bytes.
fn read_i64_in_three_ways(mut buf: &[u8]) -> codec::Result<(i64, i64, i64)> {
    Ok((
        decode_i64(&mut buf)?,
        decode_i64_desc(&mut buf)?,
        decode_i64_le(&mut buf)?,
    ))
}

/// Tests whether the numbers of a row are written as its bytes, and read back from them.
///
/// # Errors
///
/// Those of writing or reading the numbers, for which there is room.
fn i64_row_holds(row: SignedRow) -> codec::Result<bool> {
    let (number, ascending, descending, lowest_first) = row;
    let mut bytes = [0; 24];
    write_i64_in_three_ways(number, &mut bytes)?;
    Ok(
        decode_three_u64(&bytes) == (ascending, descending, lowest_first)
            && read_i64_in_three_ways(&bytes)? == (number, number, number),
    )
}

/// Tests whether the numbers of four and of two bytes in a row are written as its bytes, and read back from them.
///
/// # Errors
///
/// Those of writing or reading the numbers, for which there is room.
fn u32_and_u16_row_holds(row: ShortRow) -> codec::Result<bool> {
    let (
        long,
        short,
        long_highest_first,
        long_lowest_first,
        short_highest_first,
        short_lowest_first,
    ) = row;
    let mut bytes = [0; 12];
    write_u32_and_u16(long, short, &mut bytes)?;
    Ok(
        decode_u32_and_u16(&bytes)
            == (
                long_highest_first,
                long_lowest_first,
                short_highest_first,
                short_lowest_first,
            )
            && read_u32_and_u16(&bytes)? == (long, long, short, short),
    )
}

/// Writes two numbers, each with its highest byte first, and with its lowest byte first.
///
/// # Errors
///
/// `Io` if `out` has less than 12 bytes.
fn write_u32_and_u16(long: u32, short: u16, mut out: &mut [u8]) -> codec::Result<()> {
    out.encode_u32(long)?;
    out.encode_u32_le(long)?;
    out.encode_u16(short)?;
    out.encode_u16_le(short)
}

/// Returns the numbers in twice four and twice two bytes, each with its highest byte first.
fn decode_u32_and_u16(bytes: &[u8; 12]) -> (u32, u32, u16, u16) {
    (
        BigEndian::read_u32(&bytes[0..4]),
        BigEndian::read_u32(&bytes[4..8]),
        BigEndian::read_u16(&bytes[8..10]),
        BigEndian::read_u16(&bytes[10..12]),
    )
}

/// Reads the four numbers that [`write_u32_and_u16`] writes.
///
/// # Errors
///
/// `Io` if `buf` has less than 12 bytes.
fn read_u32_and_u16(mut buf: &[u8]) -> codec::Result<(u32, u32, u16, u16)> {
    Ok((
        decode_u32(&mut buf)?,
        decode_u32_le(&mut buf)?,
        decode_u16(&mut buf)?,
        decode_u16_le(&mut buf)?,
    ))
}

/// Tests whether the number of a row is written with its lowest byte first, as its bytes, and read back from them.
///
/// # Errors
///
/// Those of writing or reading the number, for which there is room.
fn i32_row_holds(row: (i32, u32)) -> codec::Result<bool> {
    let (number, lowest_first) = row;
    let mut bytes = [0; 4];
    let mut out: &mut [u8] = &mut bytes;
    out.encode_i32_le(number)?;
    let mut buf: &[u8] = &bytes;
    Ok(BigEndian::read_u32(&buf[0..4]) == lowest_first && decode_i32_le(&mut buf)? == number)
}

/// Tests that numbers of two, four and eight bytes are written as the bytes of the rows, and read back from them.
#[test]
fn numbers_of_a_fixed_width_are_written_and_read(rt: HostRuntime) {
    for &row in long_rows() {
        assert!(rt; matches!(u64_row_holds(row), Ok(true)), "{}", row.0);
    }
    for &row in signed_rows() {
        assert!(rt; matches!(i64_row_holds(row), Ok(true)), "{}", row.0);
    }
    for &row in short_rows() {
        assert!(rt; matches!(u32_and_u16_row_holds(row), Ok(true)), "{}", row.0);
    }
    for &row in short_signed_rows() {
        assert!(rt; matches!(i32_row_holds(row), Ok(true)), "{}", row.0);
    }
}

/// Tests whether the bytes of a lower number are less than those of a higher one, and greater where both are written in
/// descending order.
///
/// # Errors
///
/// Those of writing the numbers, for which there is room.
fn are_u64_in_order(low: u64, high: u64) -> codec::Result<bool> {
    let mut bytes = [0; 32];
    let mut out: &mut [u8] = &mut bytes;
    out.encode_u64(low)?;
    out.encode_u64(high)?;
    out.encode_u64_desc(low)?;
    out.encode_u64_desc(high)?;
    Ok(low < high && bytes[0..8] < bytes[8..16] && bytes[16..24] > bytes[24..32])
}

/// Tests for signed numbers whether the bytes of a lower one are less than those of a higher one, and greater where
/// both are written in descending order.
///
/// # Errors
///
/// Those of writing the numbers, for which there is room.
fn are_i64_in_order(low: i64, high: i64) -> codec::Result<bool> {
    let mut bytes = [0; 32];
    let mut out: &mut [u8] = &mut bytes;
    out.encode_i64(low)?;
    out.encode_i64(high)?;
    out.encode_i64_desc(low)?;
    out.encode_i64_desc(high)?;
    Ok(low < high && bytes[0..8] < bytes[8..16] && bytes[16..24] > bytes[24..32])
}

/// Tests whether the bytes of a lower number are less than those of a higher one.
///
/// # Errors
///
/// Those of writing the numbers, for which there is room.
fn are_u32_in_order(low: u32, high: u32) -> codec::Result<bool> {
    let mut bytes = [0; 8];
    let mut out: &mut [u8] = &mut bytes;
    out.encode_u32(low)?;
    out.encode_u32(high)?;
    Ok(low < high && bytes[0..4] < bytes[4..8])
}

/// Tests whether the bytes of a lower number are less than those of a higher one.
///
/// # Errors
///
/// Those of writing the numbers, for which there is room.
fn are_u16_in_order(low: u16, high: u16) -> codec::Result<bool> {
    let mut bytes = [0; 4];
    let mut out: &mut [u8] = &mut bytes;
    out.encode_u16(low)?;
    out.encode_u16(high)?;
    Ok(low < high && bytes[0..2] < bytes[2..4])
}

/// Tests that the numbers rise from row to row, and that their bytes rise with them.
#[test]
fn bytes_are_in_the_order_of_the_numbers(rt: HostRuntime) {
    for pair in long_rows().windows(2) {
        let (low, high) = (pair[0].0, pair[1].0);
        assert!(rt; matches!(are_u64_in_order(low, high), Ok(true)), "{low}");
    }
    for pair in signed_rows().windows(2) {
        let (low, high) = (pair[0].0, pair[1].0);
        assert!(rt; matches!(are_i64_in_order(low, high), Ok(true)), "{low}");
    }
    for pair in short_rows().windows(2) {
        let (low, high) = (pair[0].0, pair[1].0);
        assert!(rt; matches!(are_u32_in_order(low, high), Ok(true)), "{low}");
        let (low, high) = (pair[0].1, pair[1].1);
        assert!(rt; matches!(are_u16_in_order(low, high), Ok(true)), "{low}");
    }
}

/// Tests whether both numbers are written as `spelling`, and nothing more.
///
/// # Errors
///
/// Those of writing the numbers, for which there is room.
fn are_spelled_as(number: u64, signed: i64, spelling: &[u8]) -> codec::Result<bool> {
    let mut bytes = [0; 20];
    let mut out: &mut [u8] = &mut bytes;
    out.encode_var_u64(number)?;
    let middle = 20usize.saturating_sub(out.len());
    out.encode_var_i64(signed)?;
    let end = 20usize.saturating_sub(out.len());
    Ok(bytes.get(..middle) == Some(spelling) && bytes.get(middle..end) == Some(spelling))
}

/// Tests whether the decoders read `number` and `signed` from these bytes, and both leave `left` bytes.
///
/// # Errors
///
/// Those of [`decode_var_u64`] and [`decode_var_i64`].
fn are_decoded_as(bytes: &[u8], number: u64, signed: i64, left: usize) -> codec::Result<bool> {
    let mut buf = bytes;
    let mut signed_buf = bytes;
    Ok(
        decode_var_u64(&mut buf)? == number
            && decode_var_i64(&mut signed_buf)? == signed
            && buf.len() == left
            && signed_buf.len() == left,
    )
}

/// Tests whether a result is an io error of a kind.
fn is_io_error_of_kind<T: Drop>(read: codec::Result<T>, kind: ErrorKind) -> bool {
    matches!(read, Err(Error::Io(e)) if e.kind() == kind)
}

/// Tests that numbers of varying length are written as the bytes of the rows, read back from them, and refused where
/// a row says so.
#[test]
fn numbers_in_base_128_are_written_and_read(rt: HostRuntime) {
    for &(number, signed, spelling) in spelling_rows() {
        assert!(rt;
            matches!(are_spelled_as(number, signed, spelling), Ok(true)),
            "{number}"
        );
        assert!(rt;
            matches!(are_decoded_as(spelling, number, signed, 0), Ok(true)),
            "{number}"
        );
    }
    for &(bytes, number, signed, left) in prefix_rows() {
        assert!(rt;
            matches!(are_decoded_as(bytes, number, signed, left), Ok(true)),
            "at {bytes:?}"
        );
    }
    for &(bytes, kind) in fault_rows() {
        let mut buf = bytes;
        assert!(rt;
            is_io_error_of_kind(decode_var_u64(&mut buf), kind),
            "at {bytes:?}"
        );
        assert!(rt;
            is_io_error_of_kind(decode_var_i64(&mut buf), kind),
            "at {bytes:?}"
        );
        assert!(rt; buf == bytes);
    }
}

/// Tests that a number of eight bytes isn't written to seven bytes, nor read from them.
#[test]
fn seven_bytes_hold_no_number(rt: HostRuntime) {
    let mut bytes = [0; 7];
    let mut out: &mut [u8] = &mut bytes;
    assert!(rt; is_io_error_of_kind(out.encode_u64(1), ErrorKind::WriteZero));
    let mut out: &mut [u8] = &mut bytes;
    assert!(rt; is_io_error_of_kind(out.encode_u64_desc(1), ErrorKind::WriteZero));
    let mut out: &mut [u8] = &mut bytes;
    assert!(rt; is_io_error_of_kind(out.encode_i64(1), ErrorKind::WriteZero));
    let mut out: &mut [u8] = &mut bytes;
    assert!(rt; is_io_error_of_kind(out.encode_i64_desc(1), ErrorKind::WriteZero));
    let mut buf: &[u8] = b"1234567";
    assert!(rt; is_io_error_of_kind(decode_u64(&mut buf), ErrorKind::UnexpectedEof));
    assert!(rt; is_io_error_of_kind(decode_u64_desc(&mut buf), ErrorKind::UnexpectedEof));
    assert!(rt; is_io_error_of_kind(decode_i64(&mut buf), ErrorKind::UnexpectedEof));
    assert!(rt; is_io_error_of_kind(decode_i64_desc(&mut buf), ErrorKind::UnexpectedEof));
    assert!(rt; buf.len() == 7);
}

/// Tests that no number is written to a slice that is too short for it, nor read from one.
#[test]
fn short_slices_take_and_give_no_number(rt: HostRuntime) {
    let mut bytes = [0; 7];
    let mut out: &mut [u8] = &mut bytes;
    assert!(rt; matches!(out.encode_u64(1), Err(Error::Io(_))));
    let mut buf: &[u8] = b"\x07234567";
    assert!(rt; is_io_error_of_kind(decode_u64(&mut buf), ErrorKind::UnexpectedEof));
    assert!(rt; buf.len() == 7);
    assert!(rt; matches!(read_u8(&mut buf), Ok(7)));
    assert!(rt; buf == b"234567".as_slice());
    let mut empty: &[u8] = b"";
    assert!(rt; is_io_error_of_kind(read_u8(&mut empty), ErrorKind::UnexpectedEof));
}

/// Writes a number by each encoder, and then one that takes a single byte.
///
/// # Errors
///
/// That of the first write that fails.
fn encode_by_each_encoder<W: Write>(out: &mut W) -> codec::Result<()> {
    encode_highest_first(out)?;
    encode_lowest_first(out)?;
    out.encode_var_u64(1024)?;
    out.encode_var_i64(-1024)?;
    out.encode_var_u64(1)
}

/// Writes the number 1 by each encoder of a length that writes the highest byte first.
///
/// # Errors
///
/// That of the first write that fails.
fn encode_highest_first<W: Write>(out: &mut W) -> codec::Result<()> {
    out.encode_u64(1)?;
    out.encode_u32(1)?;
    out.encode_u16(1)?;
    out.encode_u64_desc(1)?;
    out.encode_i64(1)?;
    out.encode_i64_desc(1)
}

/// Writes a number by each encoder that writes the lowest byte first.
///
/// # Errors
///
/// That of the first write that fails.
fn encode_lowest_first<W: Write>(out: &mut W) -> codec::Result<()> {
    out.encode_u16_le(1)?;
    out.encode_u32_le(1)?;
    out.encode_u64_le(1)?;
    out.encode_i32_le(-1023)?;
    out.encode_i64_le(1)
}

/// The bytes that all encoders write, one after the other.
const ALL_NUMBERS: &[u8] = b"\
    \x00\x00\x00\x00\x00\x00\x00\x01\
    \x00\x00\x00\x01\
    \x00\x01\
    \xff\xff\xff\xff\xff\xff\xff\xfe\
    \x80\x00\x00\x00\x00\x00\x00\x01\
    \x7f\xff\xff\xff\xff\xff\xff\xfe\
    \x01\x00\
    \x01\x00\x00\x00\
    \x01\x00\x00\x00\x00\x00\x00\x00\
    \x01\xfc\xff\xff\
    \x01\x00\x00\x00\x00\x00\x00\x00\
    \x80\x08\
    \xff\x0f\
    \x01";

/// The offsets in these bytes at which a number begins or ends.
const ENDS: [usize; 15] = [0, 8, 12, 14, 22, 30, 38, 40, 44, 52, 56, 64, 66, 68, 69];

/// A writer that takes a number of writes, each as a whole, and then fails.
#[derive(Drop)]
struct Limited {
    writes: usize,
}

impl Write for Limited {
    /// Takes the bytes, as long as writes are left.
    ///
    /// # Errors
    ///
    /// `BrokenPipe` once no writes are left.
    fn write(&mut self, buf: &[u8]) -> io::Result<usize> {
        if self.writes == 0 {
            return Err(io::Error::new(ErrorKind::BrokenPipe, "closed"));
        }
        self.writes = self.writes.saturating_sub(1);
        Ok(buf.len())
    }

    /// Does nothing, and never fails.
    fn flush(&mut self) -> io::Result<()> {
        Ok(())
    }
}

/// Tests that each of the fourteen numbers is written by a single write, whose error is passed on. A vector takes a
/// write as a whole or not at all, so it never has a part of a number.
#[test]
fn each_number_is_written_by_one_write(rt: HostRuntime) {
    for writes in 0..14 {
        let mut out = Limited { writes };
        assert!(rt;
            is_io_error_of_kind(encode_by_each_encoder(&mut out), ErrorKind::BrokenPipe),
            "{writes}"
        );
    }
    let mut out = Limited { writes: 14 };
    assert!(rt; encode_by_each_encoder(&mut out).is_ok());
}

/// Tests that a vector which finds no memory for a number keeps the numbers before it, and no part of that number.
#[test]
fn vectors_take_whole_numbers(rt: HostRuntime) {
    let mut vector = Vec::new(rt.alloc());
    if encode_by_each_encoder(&mut vector).is_err() {
        // Memory is refused once in a test at most.
        assert!(rt; ENDS.contains(&vector.len()) && ALL_NUMBERS.starts_with(vector.as_slice()));
        vector.clear();
        assert!(rt; encode_by_each_encoder(&mut vector).is_ok());
    }
    assert!(rt; vector.as_slice() == ALL_NUMBERS);
}
