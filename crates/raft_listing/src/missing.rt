//! Numbers of files that are missing between two files of a queue.

ghost use Rattle.std.specs.Prelude.{◌≡◌};
ghost use Rattle.raft_listing.specs.Missing.{missing_behind, missing_between};

use raft_base::FileSeq;

/// Returns the first and the last of the file numbers that are missing between `last`, the file before, and `next`. `None` if no number is
/// missing, or there is no file before.
pub fn missing_between(last: Option<FileSeq>, next: FileSeq) -> Option<(FileSeq, FileSeq)>
    ensures { result ≡ missing_between last next }
{
    match last {
        Some(last) => numbers_between(last, next),
        None => None,
    }
}

/// Returns the first and the last of the numbers between `last` and `next`, without these two. `None` if there are none.
fn numbers_between(last: FileSeq, next: FileSeq) -> Option<(FileSeq, FileSeq)>
    ensures { result ≡ missing_behind last next }
{
    if next.saturating_sub(last) > 1 {
        Some((last + 1, next - 1))
    } else {
        None
    }
}
