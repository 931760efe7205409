//! How much of a file to read next.

ghost use Rattle.std.specs.Prelude.{◌≡◌, ◌≤◌, IfNone, IfSome};
ghost use Rattle.raft_prefix.specs.Pieces.{IsDecided, IsMissing, IsNoneMissing};

use raft_reading::PIECE;
use raft_replay::cutting::read_batch_header;
use std::alloc::Global;

/// The length of the header of a batch, in bytes.
const HEADER_LEN: usize = 16;

/// Returns how many more bytes of a file to read before a batch is tried again at the start of `bytes`, where
/// none can be read so far. The file has `left` bytes after `bytes`. It is what the batch lacks by its
/// header, but at least a piece ([`PIECE`]), and never more than `left`.
///
/// 0 means that more bytes don't help: the file ends here, no header stands at the start of `bytes`, the
/// batch is whole and still can't be read, or it would end after the file does.
pub fn bytes_wanted(alloc: Global, bytes: &[u8], left: u64) -> usize
    ensures some { result ≤ left }
    ensures none { result ≡ 0 → IsDecided bytes.now left }
{
    let Some(missing) = bytes_missing(alloc, bytes) else {
        return 0;
    };
    if missing as u64 > left {
        return 0;
    }
    (missing.max(PIECE) as u64).min(left) as usize
}

/// Returns how many bytes the batch at the start of `bytes` lacks by its header, or 0 if there are fewer
/// bytes than a header has. Returns `None` if no header stands there, or its batch is whole.
fn bytes_missing(alloc: Global, bytes: &[u8]) -> Option<usize>
    ensures some { IfSome result (IsMissing bytes.now) }
    ensures none { IfNone result (IsNoneMissing bytes.now) }
{
    if bytes.len() < HEADER_LEN {
        return Some(0);
    }
    let (_, len) = read_batch_header(alloc, bytes)?;
    if len <= bytes.len() {
        return None;
    }
    Some(len - bytes.len())
}
