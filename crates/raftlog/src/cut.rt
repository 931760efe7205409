//! The command `raftlog cut`: cuts off what an opening would cut off.

ghost use Rattle.std.specs.Prelude.{◌≡◌, ◌↔◌};
ghost use Rattle.raftlog.specs.Commands.{IsOpened};

use crate::errors::{ToolError, ToolResult};
use crate::host::Host;
use crate::options::{form_of, has_flag, version_of, workers_of};
use crate::source::{Found, files_in_folder, files_in_open_folder, refuse_file};
use crate::streams::hold_streams;
use crate::tools::{DONE, WRONG};
use clap::ArgMatches;
use raft_folder::{FolderFiles, ReadFolder};
use raft_inspect::{Opening, cut_as_opened, print_opening, try_opening};
use raft_report::{Form, append_json_kept, write_text};
use std::io::Write;

/// Cuts off what an opening of the folder would, with `--yes`, or prints what that is, with `--dry-run`. Returns the status to end with.
///
/// # Errors
///
/// `Misused` if the words have neither `--dry-run` nor `--yes`, or both; those of the folder and of the output; `Memory`. With `--yes`
/// something may be cut off after an error. What was cut off by then is printed, if the output takes it.
pub(crate) fn run_cut<'a, R: Host, W: Write>(
    rt: &'a R,
    words: &ArgMatches<'a>,
    out: &mut W,
) -> ToolResult<u8> {
    let Some(path) = words.get_str("folder") else {
        return Err(ToolError::Misused("name a folder"));
    };
    match (has_flag(words, "dry-run"), has_flag(words, "yes")) {
        (true, false) => print_cut(rt, words, path, out),
        (false, true) => cut_folder(rt, words, path, out),
        (true, true) => Err(ToolError::Misused("say --dry-run or --yes, and not both")),
        (false, false) => Err(ToolError::Misused(
            "cut changes files: say --dry-run to see what it would do, or --yes",
        )),
    }
}

/// Prints what an opening of the folder at `path` would cut off, and changes nothing. Returns the status to end with.
///
/// # Errors
///
/// Those of the folder and of the output; `Memory`.
fn print_cut<'a, R: Host, W: Write>(
    rt: &'a R,
    words: &ArgMatches<'a>,
    path: &'a str,
    out: &mut W,
) -> ToolResult<u8> {
    let found = files_in_folder(rt, path, 1)?;
    let (version, workers, alloc) = (version_of(words), workers_of(rt, words), rt.alloc());
    let (source, sizes) = (&found.source, &found.sizes);
    let opening = try_opening(rt, alloc, source, version, sizes, workers);
    source.end_progress();
    let opening = opening?;
    print_opening(form_of(words), alloc, &opening, out)?;
    Ok(status_of_cut(&opening))
}

/// Cuts off what an opening of the folder at `path` would, and prints where it is kept. A folder that isn't there is refused, and not made.
/// Returns the status to end with.
///
/// # Errors
///
/// Those of the folder and of the output; `Memory`. Something may be cut off then.
fn cut_folder<R: Host, W: Write>(
    rt: &R,
    words: &ArgMatches<'_>,
    path: &str,
    out: &mut W,
) -> ToolResult<u8> {
    let _streams = hold_streams(rt)?;
    refuse_missing_folder(rt, path)?;
    let mut files = FolderFiles::open_unread(rt, path)?;
    let found = files_in_open_folder(rt, &files)?;
    let cut = cut_files(rt, words, &found, &mut files, out);
    print_kept_tails(rt, form_of(words), &files, out)?;
    Ok(status_of_cut(&cut?))
}

/// Prints what an opening would do with the files of a folder, and cuts off what it would. Clears the progress bar, after an error too.
/// Returns what the opening would do.
///
/// # Errors
///
/// Those of [`cut_as_opened`].
fn cut_files<R: Host, W: Write>(
    rt: &R,
    words: &ArgMatches<'_>,
    found: &Found<'_, R>,
    files: &mut FolderFiles<'_, R>,
    out: &mut W,
) -> ToolResult<Opening> {
    let (version, workers, form) = (version_of(words), workers_of(rt, words), form_of(words));
    let (source, sizes, alloc) = (&found.source, &found.sizes, rt.alloc());
    let mut out = source.output_over_bar(out);
    let cut = cut_as_opened(
        rt, alloc, form, source, version, sizes, workers, files, &mut out,
    );
    source.end_progress();
    Ok(cut?)
}

/// Returns the status for what an opening would do: [`DONE`] if it accepts the files, else [`WRONG`].
fn status_of_cut(opening: &Opening) -> u8
    ensures { (result ≡ 0) ↔ IsOpened opening.now }
{
    match opening {
        Opening::Opens(_) => DONE,
        Opening::Refuses(_) => WRONG,
    }
}

/// Checks that there is a folder at `path`: opening one to write to it would make it.
///
/// # Errors
///
/// `NoFolder` if a file stands at the path; those of [`ReadFolder::open`] as `Folder`; `Memory`.
fn refuse_missing_folder<R: Host>(rt: &R, path: &str) -> ToolResult<()> {
    refuse_file(rt, path)?;
    let _folder = ReadFolder::open(rt, path)?;
    Ok(())
}

/// Prints how many bytes were cut off, and which files keep them; nothing if none were.
///
/// # Errors
///
/// `Output` if the output takes no more; `Memory`. Some lines may be printed after the first.
fn print_kept_tails<R: Host, W: Write>(
    rt: &R,
    form: Form,
    files: &FolderFiles<'_, R>,
    out: &mut W,
) -> ToolResult<()> {
    let mut text = String::new(rt.alloc());
    for tail in files.kept() {
        match form {
            Form::Text => writeln!(text, "cut: {} bytes are kept in {}", tail.len, tail.kept)?,
            Form::Json => append_json_kept(rt.alloc(), tail.len, tail.kept.as_str(), &mut text)?,
        }
    }
    write_text(out, text.as_str())?;
    Ok(())
}
