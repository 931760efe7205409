//! The command `raftlog files`: how much of each file is live.

use crate::errors::{ToolError, ToolResult};
use crate::host::Host;
use crate::options::form_of;
use crate::regions::tables_of;
use crate::source::find_files;
use crate::streams::hold_streams;
use crate::tools::DONE;
use clap::ArgMatches;
use raft_base::LogQueue;
use raft_recover::MemTableAccessor;
use raft_report::{
    FileUses, Form, append_json_uses, append_picture, append_uses, uses_of, write_text,
};
use raft_survey::BothSizes;
use std::alloc::Global;
use std::fs::OpenOptions;
use std::io;
use std::io::Write;

/// What the tables need of the files of both queues.
#[derive(Drop)]
struct BothUses {
    /// What they need of the append files.
    append: FileUses,
    /// What they need of the rewrite files.
    rewrite: FileUses,
}

/// Prints how much of each file is live, and which regions hold it; with `--svg` also draws that into a new file. Returns the status to end
/// with.
///
/// # Errors
///
/// Those of the files, of an opening, and of the output; `File` if a file is at the path of the picture, or the picture can't be written;
/// `Memory`. The lines may be printed then.
pub(crate) fn print_files<'a, R: Host, W: Write>(
    rt: &'a R,
    words: &ArgMatches<'a>,
    out: &mut W,
) -> ToolResult<u8> {
    let found = find_files(rt, words, 1)?;
    let tables = tables_of(rt, words, &found)?;
    let uses = uses_of_both(rt.alloc(), &tables)?;
    print_uses(rt.alloc(), form_of(words), &found.sizes, &uses, out)?;
    if let Some(path) = words.get_str("svg") {
        draw_picture(rt, path, &found.sizes, &uses)?;
    }
    Ok(DONE)
}

/// Returns what the tables need of the files of both queues.
///
/// # Errors
///
/// `Memory` alone, as `Raft`.
fn uses_of_both(alloc: Global, tables: &MemTableAccessor) -> ToolResult<BothUses> {
    let append = uses_of(alloc, tables, LogQueue::Append)?;
    let rewrite = uses_of(alloc, tables, LogQueue::Rewrite)?;
    Ok(BothUses { append, rewrite })
}

/// Prints a line for each file, those of the append queue first, as text or as JSON.
///
/// # Errors
///
/// `Output` if the output takes no more; `Memory`. Some lines may then be printed.
fn print_uses<W: Write>(
    alloc: Global,
    form: Form,
    sizes: &BothSizes,
    uses: &BothUses,
    out: &mut W,
) -> ToolResult<()> {
    let mut text = String::new(alloc);
    match form {
        Form::Text => {
            append_uses(LogQueue::Append, &sizes.append, &uses.append, &mut text)?;
            append_uses(LogQueue::Rewrite, &sizes.rewrite, &uses.rewrite, &mut text)?;
        }
        Form::Json => {
            append_json_uses(LogQueue::Append, &sizes.append, &uses.append, &mut text)?;
            append_json_uses(LogQueue::Rewrite, &sizes.rewrite, &uses.rewrite, &mut text)?;
        }
    }
    write_text(out, text.as_str())?;
    Ok(())
}

/// Draws the files as a picture into a new file at `path`.
///
/// # Errors
///
/// `File` if a file is at the path, which stays as it is, or if the new one can't be made or written; `Memory`. The start of the picture
/// may stand in the new file then.
fn draw_picture<R: Host>(rt: &R, path: &str, sizes: &BothSizes, uses: &BothUses) -> ToolResult<()> {
    let _streams = hold_streams(rt)?;
    let mut picture = String::new(rt.alloc());
    let (append, rewrite) = (
        (&*sizes.append, &uses.append),
        (&*sizes.rewrite, &uses.rewrite),
    );
    append_picture(append, rewrite, &mut picture)?;
    match write_new_file(rt, path, picture.as_str()) {
        Ok(()) => Ok(()),
        Err(error) => Err(ToolError::of_file(rt.alloc(), path, error)),
    }
}

/// Makes a file at `path`, and writes `text` to it.
///
/// # Errors
///
/// Those of the system: of the kind `AlreadyExists` if a file is at the path, which stays as it is. After another one the start of the text
/// may stand in the new file.
fn write_new_file<R: Host>(rt: &R, path: &str, text: &str) -> io::Result<()> {
    let mut how = OpenOptions::new();
    how.write(true).create_new(true);
    let mut file = how.open(rt, path)?;
    file.write_all(text.as_bytes())
}
