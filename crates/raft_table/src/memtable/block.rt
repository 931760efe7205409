//! [`Block`]: neighboring entries of a table that are in one entry block of a file.

use raft_base::FileBlockHandle;
use std::collections::VecDeque;

/// Neighboring entries of a table that are in one entry block of a file, as many as there are. Their indexes
/// are consecutive; the table knows the first one.
#[derive(Drop)]
pub struct Block {
    /// The place of the entry block in its file.
    pub handle: FileBlockHandle,
    /// The offset of each entry in the entry block, and its length in bytes.
    pub spans: VecDeque<(u32, u32)>,
}
