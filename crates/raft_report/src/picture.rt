//! The files of both queues as a picture in SVG. Each call that appends fails for want of memory alone, and some of its text may then be
//! appended.

use crate::uses::{FileUse, FileUses, append_regions_of, filled_parts, live_bytes_in};
use raft_base::{AllocResult, LogQueue};
use raft_reading::FileSize;
use raft_replay::segment::queue_name;

/// The width of the largest file's bar, in pixels.
const WIDTH: u64 = 480;

/// The height of a line, in pixels.
const LINE: u64 = 24;

/// Where bars begin, in pixels from the left.
const LEFT: u64 = 150;

/// Where the words to the right of a bar begin, in pixels from the left.
const BEHIND: u64 = LEFT + WIDTH + 12;

/// Appends the files of both queues as a picture in SVG. `append` and `rewrite` are each queue's files, with what the tables need of them.
/// Each file has a line with a bar: its length is that of the file beside the largest one of both queues, its filled part the bytes of live
/// entries. The regions whose oldest file it is stand to its right.
///
/// # Errors
///
/// Fails only if there is no memory. Some of the picture may then be appended.
pub fn append_picture(
    append: (&[FileSize], &FileUses),
    rewrite: (&[FileSize], &FileUses),
    text: &mut String,
) -> AllocResult<()> {
    let count = (append.0.len() as u64).saturating_add(rewrite.0.len() as u64);
    let height = count.saturating_add(2).saturating_mul(LINE);
    let width = BEHIND.saturating_add(640);
    writeln!(
        text,
        "<svg xmlns=\"http://www.w3.org/2000/svg\" width=\"{width}\" height=\"{height}\" font-family=\"sans-serif\" font-size=\"13\">"
    )?;
    writeln!(
        text,
        "<rect width=\"{width}\" height=\"{height}\" fill=\"#ffffff\"/>"
    )?;
    writeln!(
        text,
        "<text x=\"10\" y=\"17\">Each bar is a file; its filled part are the bytes of live entries.</text>"
    )?;
    let largest = largest_length(append.0).max(largest_length(rewrite.0));
    append_queue_files(LogQueue::Append, append, largest, 1, text)?;
    let below = (append.0.len() as u64).saturating_add(1);
    append_queue_files(LogQueue::Rewrite, rewrite, largest, below, text)?;
    text.push_str("</svg>\n")
}

/// Returns the length in bytes of the largest file; 0 if there are no files.
fn largest_length(sizes: &[FileSize]) -> u64 {
    let mut largest = 0;
    for size in sizes {
        largest = size.len.max(largest);
    }
    largest
}

/// Appends the files of a queue, one a line. The first of them goes to the line `first_line`, counted from 0. `largest` is the length in
/// bytes to which bars are compared.
fn append_queue_files(
    queue: LogQueue,
    files: (&[FileSize], &FileUses),
    largest: u64,
    first_line: u64,
    text: &mut String,
) -> AllocResult<()> {
    let mut line = first_line;
    for size in files.0 {
        append_file_line(queue, size, files.1.get(&size.seq), largest, line, text)?;
        line = line.saturating_add(1);
    }
    Ok(())
}

/// Appends the line of one file: its name, its bar, and to the right of it how much of the file is live and which regions have it as their
/// oldest. `file_use` is `None` if no table needs the file.
fn append_file_line(
    queue: LogQueue,
    size: &FileSize,
    file_use: Option<&FileUse>,
    largest: u64,
    line: u64,
    text: &mut String,
) -> AllocResult<()> {
    let (live, y) = (live_bytes_in(file_use), line.saturating_mul(LINE));
    append_bar(queue, (size.len, live), largest, y.saturating_add(4), text)?;
    let (name, seq, text_y) = (queue_name(queue), size.seq, y.saturating_add(17));
    writeln!(text, "<text x=\"10\" y=\"{text_y}\">{name} {seq}</text>")?;
    let (percent, len) = (filled_parts(live, size.len, 100), size.len);
    write!(
        text,
        "<text x=\"{BEHIND}\" y=\"{text_y}\">{percent} % of {len} bytes are live"
    )?;
    append_regions_of(file_use, text)?;
    text.push_str("</text>\n")
}

/// Appends the bar of a file of `len` bytes, of which `live` are those of live entries. Both are drawn as parts of `largest` bytes. `y` is
/// the top of the bar in pixels; the queue decides its colour.
fn append_bar(
    queue: LogQueue,
    (len, live): (u64, u64),
    largest: u64,
    y: u64,
    text: &mut String,
) -> AllocResult<()> {
    let (whole, full) = (
        filled_parts(len, largest, WIDTH),
        filled_parts(live, largest, WIDTH),
    );
    let colour = match queue {
        LogQueue::Append => "#2b6cb0",
        LogQueue::Rewrite => "#2f855a",
    };
    writeln!(
        text,
        "<rect x=\"{LEFT}\" y=\"{y}\" width=\"{whole}\" height=\"16\" fill=\"#e2e8f0\" stroke=\"#718096\"/>"
    )?;
    writeln!(
        text,
        "<rect x=\"{LEFT}\" y=\"{y}\" width=\"{full}\" height=\"16\" fill=\"{colour}\"/>"
    )
}
