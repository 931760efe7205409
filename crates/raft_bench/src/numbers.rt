//! Times the writing and reading of numbers in base 128.

use crate::timing::{Noise, best_times, print_time_and_speed, time_work};
use raft_records::Result;
use raft_records::codec::{BytesSlice, NumberEncoder, decode_var_u64};
use std::io;

/// How many numbers are written and read.
const COUNT: usize = 1_000_000;

/// Times the writing and reading of numbers of five lengths, and prints two lines for each length.
///
/// # Errors
///
/// `Memory`; `Io` for the clock or the output.
pub(crate) fn time_numbers(rt: &HostRuntime) -> Result<()> {
    for &bits in &[7u32, 14, 28, 56, 64] {
        let mut noise = Noise::new();
        let mut numbers = Vec::new(rt.alloc());
        for _ in 0..COUNT {
            numbers.push(noise.next_u64() >> (64 - bits))?;
        }
        time_numbers_of_length(rt, bits, numbers.as_slice())?;
    }
    Ok(())
}

/// Times the writing and reading of `numbers`, which have at most `bits` bits, and prints a line for each.
///
/// # Errors
///
/// `Memory`; `Io` for the clock or the output.
fn time_numbers_of_length(rt: &HostRuntime, bits: u32, numbers: &[u64]) -> Result<()> {
    let mut bytes = Vec::with_capacity(rt.alloc(), 10 * COUNT)?;
    let ([writing, reading], sum) = best_times(|| -> io::Result<_> {
        bytes.clear();
        let (writing, ()) = time_work(rt, || write_numbers(&mut bytes, numbers))?;
        let (reading, sum) = time_work(rt, || sum_numbers(bytes.as_slice()))?;
        Ok(([writing, reading], sum))
    })?;
    let len = bytes.len();
    let name = format!(in rt.alloc(); "encode_var_u64, {bits} bits")?;
    print_time_and_speed(rt, name.as_str(), writing, "number", COUNT, len)?;
    let name = format!(in rt.alloc(); "decode_var_u64, {bits} bits (sum {sum})")?;
    print_time_and_speed(rt, name.as_str(), reading, "number", COUNT, len)?;
    Ok(())
}

/// Appends the bytes of `numbers` to `bytes`, up to the first one that can't be written. This is the work
/// that is timed.
fn write_numbers(bytes: &mut Vec<u8>, numbers: &[u64]) {
    for number in numbers {
        if bytes.encode_var_u64(*number).is_err() {
            return;
        }
    }
}

/// Reads a million numbers from `bytes`, or as many as there are, and returns their sum modulo 2^64. This is
/// the work that is timed.
fn sum_numbers(bytes: BytesSlice<'_>) -> u64 {
    let mut rest = bytes;
    let mut sum = 0u64;
    for _ in 0..COUNT {
        match decode_var_u64(&mut rest) {
            Ok(number) => sum = sum.wrapping_add(number),
            Err(_) => return sum,
        }
    }
    sum
}
