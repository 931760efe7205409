//! Numbers that are written to a vector, in all forms of the codec.

use crate::found::{Found, call_twice};
use raft_base::codec::{self, NumberEncoder};
use raft_base::{Error, Result};
use std::io::ErrorKind;

/// A number, and the form in which it is written, named as in `encode_u64`.
#[derive(Clone, Copy)]
enum Number {
    U64(u64),
    U32(u32),
    U16(u16),
    U64Desc(u64),
    I64(i64),
    I64Desc(i64),
    U64Le(u64),
    U32Le(u32),
    U16Le(u16),
    I64Le(i64),
    I32Le(i32),
    VarU64(u64),
    VarI64(i64),
}

/// The numbers that the row `numbers` writes.
static NUMBERS: [Number; 17] = [
    Number::VarU64(0),
    Number::VarU64(u64::MAX),
    Number::VarI64(-1),
    Number::VarI64(1),
    Number::VarI64(i64::MIN),
    Number::I64(-1),
    Number::I64Desc(-1),
    Number::U64(258),
    Number::U64Desc(258),
    Number::U64Le(258),
    Number::U32(258),
    Number::U32Le(258),
    Number::U16(258),
    Number::U16Le(258),
    Number::I32Le(-1023),
    Number::I64Le(-1024),
    Number::VarU64(300),
];

/// Returns the numbers that the row writes, each with its form.
fn written_numbers() -> &'static [Number] {
    &NUMBERS
}

/// Appends all numbers to one vector, and adds a line with its bytes in hexadecimal digits.
///
/// # Errors
///
/// That of the first number that can't be written, also when it is tried again.
pub(crate) fn encode_numbers(found: &mut Found) -> Result<()> {
    let mut bytes = Vec::new(found.alloc);
    for number in written_numbers() {
        encode_and_retry(found, &mut bytes, *number)?;
    }
    found.append_hex_line(bytes.as_slice())
}

/// Appends `number` to `bytes`. If that returns `Memory`, notes in `found` whether the vector is unchanged,
/// and tries once more.
///
/// # Errors
///
/// Those of [`write_number`]; `Memory` also if there is none for a copy of the vector.
fn encode_and_retry(found: &mut Found, bytes: &mut Vec<u8>, number: Number) -> Result<()> {
    let before = Vec::from_slice(found.alloc, bytes.as_slice())?;
    call_twice!(found; write_number(bytes, number); bytes.as_slice() == before.as_slice())
}

/// Appends `number` to `bytes`. Unlike the codec, which returns an `Io` of the kind `OutOfMemory` for lack of
/// memory, it returns `Memory`.
///
/// # Errors
///
/// `Memory` if the vector can't grow; else the error of the codec.
fn write_number(bytes: &mut Vec<u8>, number: Number) -> Result<()> {
    match encode_in_form(bytes, number) {
        Err(codec::Error::Io(error)) if error.kind() == ErrorKind::OutOfMemory => {
            Err(Error::Memory)
        }
        answer => Ok(answer?),
    }
}

/// Appends `number` to `bytes` in its form, as `encode_u64` does for `U64`.
///
/// # Errors
///
/// `Io` of the kind `OutOfMemory` if the vector can't grow.
fn encode_in_form(bytes: &mut Vec<u8>, number: Number) -> codec::Result<()> {
    match number {
        Number::U64(n) => bytes.encode_u64(n),
        Number::U32(n) => bytes.encode_u32(n),
        Number::U16(n) => bytes.encode_u16(n),
        Number::U64Desc(n) => bytes.encode_u64_desc(n),
        Number::I64(n) => bytes.encode_i64(n),
        Number::I64Desc(n) => bytes.encode_i64_desc(n),
        Number::U64Le(n) => bytes.encode_u64_le(n),
        Number::U32Le(n) => bytes.encode_u32_le(n),
        Number::U16Le(n) => bytes.encode_u16_le(n),
        Number::I64Le(n) => bytes.encode_i64_le(n),
        Number::I32Le(n) => bytes.encode_i32_le(n),
        Number::VarU64(n) => bytes.encode_var_u64(n),
        Number::VarI64(n) => bytes.encode_var_i64(n),
    }
}
