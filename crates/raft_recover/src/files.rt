//! Whole files as segments.

ghost use Rattle.std.specs.Prelude.{◌≡◌, ◌↔◌, ◌<◌, ◌^◌, List, IfOk, IfErr, length, map};
ghost use Rattle.raft_recover.specs.Common.{LogQueue, Version, Event, IsSmall, SegmentsHold, SegmentsAreOf, AreWholeFiles, FilesHold, bytes_of_files, NumberedBytes, file_shown};

use raft_base::{Error, FileId, FileSeq, LogQueue, Result, Version};
use raft_records::FilePart;
use raft_replay::Segment;

/// Returns a segment for each of `files` of `queue`, in order. It has one part, with all bytes of the file,
/// which aren't copied. Reading the segments gives what reading the files gives.
///
/// # Errors
///
/// `Memory` alone. The files are dropped then.
pub fn file_segments(
    queue: LogQueue,
    version: Version,
    files: Vec<(FileSeq, Vec<u8>)>,
) -> Result<Vec<Segment>>
    ensures same { IfOk result (λ segments. (h : List Event)
        → FilesHold queue version (map file_shown files.items) h ↔ SegmentsHold segments.items h) }
    ensures whole { IfOk result (λ segments. AreWholeFiles queue version
        (map file_shown files.items) segments.items) }
    ensures of_queue { IfOk result (λ segments. SegmentsAreOf queue segments.items) }
    ensures count { IfOk result (λ segments. length segments.items ≡ length files.items) }
    ensures memory { IfErr result (λ e. e ≡ Error.Memory) }
{
    let alloc = *files.allocator();
    let mut segments = Vec::with_capacity(alloc, files.len())?;
    for (seq, bytes) in files {
        let whole = FilePart::new(FileId::new(queue, seq), version, 0, bytes)?;
        segments.push(vec![in alloc; whole]?)?;
    }
    Ok(segments)
}

/// States that files of fewer than 2^63 bytes together have a history with fewer than 2^63 entries, key
/// values and deletions of keys together, since batches don't name more of these than they have bytes. This
/// is a law: it computes nothing.
pub fn files_hold_few_records()
    ensures { (queue : LogQueue) (version : Version) (files : List NumberedBytes) (h : List Event)
        → FilesHold queue version files h → bytes_of_files files < 2 ^ 63 → IsSmall h }
{}
