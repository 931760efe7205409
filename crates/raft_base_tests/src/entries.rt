//! Which lists of entries are consecutive, and how entries are compressed.

use raft_base::{CompressionType, EntryIndex, Error, Result, is_consecutive};
use raft_trials::again;
use std::alloc::Global;
use std::process::Abort;

/// The greatest index that an entry can have.
const GREATEST: u64 = 18_446_744_073_709_551_614;

/// Lists of indexes, each with whether entries with these indexes are consecutive.
static INDEXES: [(&[u64], bool); 11] = [
    (&[], true),
    (&[0], true),
    (&[5], true),
    (&[5, 6, 7], true),
    (&[5, 7], false),
    (&[5, 6, 8], false),
    (&[5, 5], false),
    (&[6, 5], false),
    (&[GREATEST], true),
    (&[GREATEST, u64::MAX], false),
    (&[u64::MAX], false),
];

/// Returns the rows of indexes.
fn index_rows() -> &'static [(&'static [u64], bool)] {
    &INDEXES
}

/// Tests whether entries with these indexes are consecutive.
///
/// # Errors
///
/// `Memory` alone.
fn are_consecutive(alloc: Global, indexes: &[u64]) -> Result<bool> {
    let mut entries = Vec::new(alloc);
    for index in indexes {
        entries.push(EntryIndex {
            index: *index,
            ..EntryIndex::default()
        })?;
    }
    Ok(is_consecutive(entries.as_slice()))
}

/// Asserts for each row that entries with its indexes are consecutive or not, as it says.
///
/// # Errors
///
/// `Memory` alone.
fn check_each_index_row(rt: &impl Abort, alloc: Global) -> Result<()> {
    for &(indexes, consecutive) in index_rows() {
        assert!(rt;
            are_consecutive(alloc, indexes)? == consecutive,
            "{indexes:?}"
        );
    }
    Ok(())
}

/// Tests that entries count as consecutive just if each index follows the one before it.
#[test]
fn consecutive_lists_are_told_apart(rt: HostRuntime) {
    assert!(rt; again!(check_each_index_row(&rt, rt.alloc())).is_ok());
}

/// Tests whether a byte is read as it should be: 0 as the compression type that is written as 0, any other byte not at
/// all, with an error that names the byte.
///
/// # Errors
///
/// That of reading the byte, unless it is `Corruption`; `Memory`.
fn is_compression_byte_read_right(alloc: Global, byte: u8) -> Result<bool> {
    match CompressionType::from_u8(alloc, byte) {
        Ok(compression_type) => Ok(byte == 0 && compression_type.to_u8() == 0),
        Err(Error::Corruption(text)) => {
            let reason = format!(in alloc; "Unrecognized compression type: {byte}")?;
            Ok(byte != 0 && text == reason)
        }
        Err(e) => Err(e),
    }
}

/// Asserts for each byte that it is read right as a compression type.
///
/// # Errors
///
/// Those of [`is_compression_byte_read_right`].
fn check_each_compression_byte(rt: &impl Abort, alloc: Global) -> Result<()> {
    for byte in 0..=u8::MAX {
        assert!(rt; is_compression_byte_read_right(alloc, byte)?, "{byte}");
    }
    Ok(())
}

/// Tests that of all bytes only 0 is read as a compression type, and that an error names any other.
#[test]
fn zero_alone_is_a_compression_type(rt: HostRuntime) {
    assert!(rt; again!(check_each_compression_byte(&rt, rt.alloc())).is_ok());
}
