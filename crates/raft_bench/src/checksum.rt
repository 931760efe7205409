//! Times checksums.

use crate::timing::{Noise, best_times, print_time_and_speed, time_work};
use raft_records::Result;
use raft_records::util::crc32;

/// Times the checksums of 16 MiB, cut into chunks of eight lengths in turn, and prints a line for each
/// length.
///
/// # Errors
///
/// `Memory`; `Io` for the clock or the output.
pub(crate) fn time_checksums(rt: &HostRuntime) -> Result<()> {
    let mut bytes = Vec::new(rt.alloc());
    Noise::new().append_bytes(&mut bytes, 1 << 24)?;
    for &size in &[8usize, 64, 256, 1 << 10, 1 << 12, 1 << 16, 1 << 20, 1 << 24] {
        time_checksums_of_size(rt, bytes.as_slice(), size)?;
    }
    Ok(())
}

/// Times the checksums of the chunks of `size` bytes that `bytes` have, and prints a line.
///
/// # Errors
///
/// `Memory`; `Io` for the clock or the output.
fn time_checksums_of_size(rt: &HostRuntime, bytes: &[u8], size: usize) -> Result<()> {
    let (best, last) = best_times(|| time_work(rt, || xor_of_checksums(bytes, size)))?;
    let count = bytes.len() / size.max(1);
    let name = format!(in rt.alloc(); "crc32 of {size} bytes ({last:08x})")?;
    print_time_and_speed(rt, name.as_str(), best, "call", count, bytes.len())?;
    Ok(())
}

/// Returns the exclusive or of the checksums of all chunks of `size` bytes that `bytes` have. This is the
/// work that is timed.
fn xor_of_checksums(bytes: &[u8], size: usize) -> u32 {
    let mut all = 0;
    for chunk in bytes.chunks_exact(size.max(1)) {
        all ^= crc32(chunk);
    }
    all
}
