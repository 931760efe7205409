//! Numbers and limits that hold for the files of both queues.

use raft_base::FileSeq;

/// The number of each queue's first file.
pub const FIRST_SEQ: FileSeq = 1;

/// The greatest offset in a file at which a batch is put.
pub const LAST_OFFSET: u64 = 1 << 63;

/// The greatest number of bytes that the entries of a batch which moves records have together, unless they are all of one
/// block.
pub const MAX_REWRITE_BATCH_BYTES: u64 = 4 * 1024;
