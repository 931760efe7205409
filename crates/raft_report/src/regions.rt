//! The keys of a region as text.

use raft_base::{AllocResult, Error, Result};
use raft_listing::append_quoted_or_hex;
use raft_recover::MemTable;
use std::alloc::Global;

/// Appends a line for each key of a region's table, in the order of the keys: the key, and how many bytes its value has. With `values` the
/// value itself is shown in place of its length.
///
/// # Errors
///
/// `Memory`. Some lines may then be appended.
pub fn append_keys(alloc: Global, table: &MemTable, values: bool, text: &mut String) -> Result<()> {
    let mut appended = Ok(());
    table.scan(None, None, false, |key, value| {
        appended = append_key(alloc, key, value, values, text);
        appended.is_ok()
    })?;
    match appended {
        Ok(()) => Ok(()),
        Err(_) => Err(Error::Memory),
    }
}

/// Appends the line of one key: the key, and how many bytes its value has, or with `values` the value itself.
///
/// # Errors
///
/// Fails only if there is no memory. Some of the line may then be appended.
fn append_key(
    alloc: Global,
    key: &[u8],
    value: &[u8],
    values: bool,
    text: &mut String,
) -> AllocResult<()> {
    text.push_str("  key ")?;
    append_quoted_or_hex(alloc, key, text)?;
    if values {
        text.push_str(" = ")?;
        append_quoted_or_hex(alloc, value, text)?;
    } else {
        write!(text, " {} bytes", value.len())?;
    }
    text.push('\n')
}
