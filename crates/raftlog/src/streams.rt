//! Protection of files against standard streams that are closed.

use crate::errors::{ToolError, ToolResult};
use crate::host::Host;
use std::fs;
use std::fs::File;

/// What is opened for reading in place of a standard stream that is closed.
const NOTHING: &str = "/dev/null";

/// The number of standard streams.
const STREAMS: usize = 3;

/// Opens [`NOTHING`] three times, so that the numbers of closed standard streams are taken while the result lives. A file that is opened
/// then can't get such a number; else what is printed would be written into that file. Printing to a closed stream still fails.
///
/// # Errors
///
/// `File` if [`NOTHING`] can't be opened; `Memory`.
pub(crate) fn hold_streams<R: Host>(rt: &R) -> ToolResult<Vec<File>> {
    let mut held = Vec::new(rt.alloc());
    for _ in 0..STREAMS {
        match fs::open(rt, NOTHING) {
            Ok(file) => held.push(file)?,
            Err(error) => return Err(ToolError::of_file(rt.alloc(), NOTHING, error)),
        }
    }
    Ok(held)
}
