//! The command `raftlog check`: what can't be read, and what an opening would do.

ghost use Rattle.std.specs.Prelude.{◌≡◌, ◌↔◌, ◌<◌, ◌≤◌, codes, IfOk, OnErr};
ghost use Rattle.raft_inspect.specs.CutShort.{IsCheckCutShort};
ghost use Rattle.raft_inspect.specs.Printed.{verdict_word};
ghost use Rattle.raftlog.specs.Commands.{AreFilesChecked, IsCheckDone};

use crate::errors::ToolResult;
use crate::host::Host;
use crate::options::{form_of, version_of, workers_of};
use crate::source::find_files;
use crate::tools::{DONE, WRONG};
use clap::ArgMatches;
use raft_base::Version;
use raft_inspect::{Findings, print_check};
use raft_reading::ReadFiles;
use raft_report::Form;
use raft_survey::BothSizes;
use std::io::Write;
use std::thread::Threads;

/// Prints what can't be read of the files that the words name, and what an opening would do. Returns the status to end with.
///
/// # Errors
///
/// `Misused` if the words name no files; those of the files and of the output; `Memory`. Some lines may be printed then.
pub(crate) fn run_check<'a, R: Host, W: Write>(
    rt: &'a R,
    words: &ArgMatches<'a>,
    out: &mut W,
) -> ToolResult<u8>
    ensures { IfOk result (AreFilesChecked words.now (R.gives rt.now)) }
{
    let found = find_files(rt, words, 2)?;
    let (version, workers, form) = (version_of(words), workers_of(rt, words), form_of(words));
    let mut out = found.source.output_over_bar(out);
    let checked = check_files(
        rt,
        &found.source,
        version,
        &found.sizes,
        workers,
        form,
        &mut out,
    );
    found.source.end_progress();
    checked
}

/// Prints what can't be read of the files that `sizes` names and `source` reads, and what an opening by `workers` threads would do with
/// them. Returns the status to end with.
///
/// # Errors
///
/// Those of the files and of the output; `Memory`. A prefix of the lines, but not all of them, is then printed.
fn check_files<R: Threads + Sync + AllocGlobal, S: ReadFiles, W: Write>(
    rt: &R,
    source: &S,
    version: Version,
    sizes: &BothSizes,
    workers: usize,
    form: Form,
    out: &mut W,
) -> ToolResult<u8>
    requires { (0 < workers) × (workers ≤ 256) }
    ensures done { IfOk result (IsCheckDone (S.gives source.now) (S.may_fail source.now) version workers sizes.now.append.items
        sizes.now.rewrite.items form (W.contents out.old) (W.contents out.new)) }
    ensures cut_short { OnErr result (IsCheckCutShort (S.gives source.now) (S.may_fail source.now) version workers
        sizes.now.append.items sizes.now.rewrite.items form (W.contents out.old) (W.contents out.new)) }
{
    let findings = print_check(rt, rt.alloc(), source, version, sizes, workers, form, out)?;
    Ok(status_of_check(&findings))
}

/// Returns the status of a check: [`DONE`] if its verdict is `sound`, else [`WRONG`].
fn status_of_check(findings: &Findings) -> u8
    ensures { (result ≡ 0) ↔ (verdict_word findings.now ≡ codes "sound") }
{
    if findings.verdict() == "sound" {
        DONE
    } else {
        WRONG
    }
}
