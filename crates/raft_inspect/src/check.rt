//! A check of the files of both queues, which is printed while it goes on.

ghost use Rattle.std.specs.Prelude.{◌≡◌, ◌↔◌, ◌++◌, ◌<◌, ◌≤◌, codes, string_bytes, true, IfErr, IfOk, OnErr, OnOk};
ghost use Rattle.std.specs.Io.KnownBytes.{Appends};
ghost use Rattle.raft_survey.specs.FileScans.{IsScanOf};
ghost use Rattle.raft_survey.specs.FileWalks.{IsFileUnread, IsOneOfBothUnread, IsOneUnread};
ghost use Rattle.raft_inspect.specs.CutShort.{AreBothScansCutShort, AreScansCutShort, IsCheckCutShort, IsTextCutShort, IsScanCutShort};
ghost use Rattle.raft_inspect.specs.Faults.{IsUnchecked, IsUnprinted, IsUnprintedFor};
ghost use Rattle.raft_inspect.specs.Printed.{ending_text, verdict_word};
ghost use Rattle.raft_inspect.specs.PrintedChecks.{AreBothScansPrinted, AreScansPrinted, IsCheckPrinted};
ghost use Rattle.raft_inspect.specs.PrintedForms.{ending_lines, scan_lines};
ghost use Rattle.raft_inspect.specs.Verdicts.{IsUndamaged};

use crate::findings::{Findings, UndamagedQueues};
use crate::json::append_json_ending;
use crate::opening::try_opening;
use crate::report::{append_no_files_if_empty, append_opening};
use raft_base::{AllocResult, FileSeq, LogQueue, Version};
use raft_listing::FileScan;
use raft_reading::{FileSize, ReadFiles};
use raft_report::{Form, PrintResult, append_json_scan, write_text};
use raft_survey::{BothSizes, append_scan, scan_file};
use std::alloc::Global;
use std::io::Write;
use std::thread::Threads;

/// Checks the files of both queues, and prints what it finds to `out`: the lines of each file as soon as it is read, then what an opening
/// by `workers` threads, 1 to 256, would do, and the verdict. Returns what it found, but for the damage: what is said of that of a file is
/// in memory until its lines are printed. `sizes` names the files, all of `version`; `source` reads them in pieces, twice: for the scans,
/// and for the opening that is tried.
///
/// # Errors
///
/// `Output` if the output takes no more; `Files` of `Io` if a read fails, or of `Memory`. A prefix of the lines, but not all of them, is
/// then printed. Damage and a refusal are no errors.
pub fn print_check<R: Threads + Sync, S: ReadFiles, W: Write>(
    rt: &R,
    alloc: Global,
    source: &S,
    version: Version,
    sizes: &BothSizes,
    workers: usize,
    form: Form,
    out: &mut W,
) -> PrintResult<Findings>
    requires { (0 < workers) × (workers ≤ 256) }
    ensures ok { IfOk result (IsCheckPrinted (S.gives source.now) (S.may_fail source.now) version workers
        sizes.now.append.items sizes.now.rewrite.items form (W.contents out.old) (W.contents out.new)) }
    ensures cut_short { OnErr result (IsCheckCutShort (S.gives source.now) (S.may_fail source.now) version workers
        sizes.now.append.items sizes.now.rewrite.items form (W.contents out.old) (W.contents out.new)) }
    ensures fault { IfErr result (IsUnprintedFor (IsUnchecked (S.gives source.now) (S.may_fail source.now) version workers
        sizes.now.append.items sizes.now.rewrite.items)) }
{
    let undamaged = print_both_scans(form, alloc, source, version, sizes, out)?;
    let opening = try_opening(rt, alloc, source, version, sizes, workers)?;
    let found = Findings::new(sizes, undamaged, opening);
    print_ending(form, alloc, &found, out)?;
    Ok(found)
}

/// Scans the files of both queues, those of the append queue first, and prints what is found in each. Returns in which queues nothing is
/// found that can't be read.
///
/// # Errors
///
/// Those of [`print_check`].
fn print_both_scans<S: ReadFiles, W: Write>(
    form: Form,
    alloc: Global,
    source: &S,
    version: Version,
    sizes: &BothSizes,
    out: &mut W,
) -> PrintResult<UndamagedQueues>
    ensures ok { IfOk result (AreBothScansPrinted (S.gives source.now) version
        sizes.now.append.items sizes.now.rewrite.items form (W.contents out.old) (W.contents out.new)) }
    ensures cut_short { OnErr result (AreBothScansCutShort (S.gives source.now) version
        sizes.now.append.items sizes.now.rewrite.items form (W.contents out.old) (W.contents out.new)) }
    ensures fault { IfErr result (IsUnprintedFor (IsOneOfBothUnread (S.gives source.now) (S.may_fail source.now)
        sizes.now.append.items sizes.now.rewrite.items)) }
{
    let queue = LogQueue::Append;
    let append = print_scans(form, alloc, source, queue, version, &sizes.append, out)?;
    let queue = LogQueue::Rewrite;
    let rewrite = print_scans(form, alloc, source, queue, version, &sizes.rewrite, out)?;
    Ok(UndamagedQueues { append, rewrite })
}

/// Scans the files of one queue, in the order of `sizes`, and prints what is found in each as soon as it is read. Returns whether nothing
/// is found that can't be read.
///
/// # Errors
///
/// Those of [`print_check`]. Some lines may then be printed.
fn print_scans<S: ReadFiles, W: Write>(
    form: Form,
    alloc: Global,
    source: &S,
    queue: LogQueue,
    version: Version,
    sizes: &[FileSize],
    out: &mut W,
) -> PrintResult<bool>
    ensures ok { IfOk result (AreScansPrinted (S.gives source.now) queue version sizes.now form
        (W.contents out.old) (W.contents out.new)) }
    ensures cut_short { OnErr result (AreScansCutShort (S.gives source.now) queue version sizes.now form
        (W.contents out.old) (W.contents out.new)) }
    ensures fault { IfErr result (IsUnprintedFor (IsOneUnread (S.gives source.now) (S.may_fail source.now) queue sizes.now)) }
{
    let mut are_undamaged = true;
    let mut last = None;
    for size in sizes {
        let scan = scan_and_print(form, alloc, source, queue, version, size, last, out)?;
        last = Some(scan.seq);
        are_undamaged = is_still_undamaged(are_undamaged, &scan);
    }
    Ok(are_undamaged)
}

/// Tests whether nothing was found that can't be read, neither so far nor by a further scan.
fn is_still_undamaged(are_undamaged: bool, scan: &FileScan) -> bool
    ensures { (result ≡ true) ↔ ((are_undamaged ≡ true) × IsUndamaged scan.now) }
{
    are_undamaged && scan.damages.is_empty()
}

/// Scans one file, prints what is found in it, and returns the scan. `last` is the number of the file before it, `None` if it is the first:
/// a line says which files are missing between the two.
///
/// # Errors
///
/// Those of [`print_check`]. Some lines may then be printed.
fn scan_and_print<S: ReadFiles, W: Write>(
    form: Form,
    alloc: Global,
    source: &S,
    queue: LogQueue,
    version: Version,
    size: &FileSize,
    last: Option<FileSeq>,
    out: &mut W,
) -> PrintResult<FileScan>
    ensures scanned { IfOk result (IsScanOf (S.gives source.now) queue version size.now) }
    ensures printed { IfOk result (λ scan. Appends (W.contents out.old) (W.contents out.new)
        (scan_lines form queue last scan)) }
    ensures cut_short { OnErr result (IsScanCutShort (S.gives source.now) queue version size.now form last
        (W.contents out.old) (W.contents out.new)) }
    ensures fault { IfErr result (IsUnprintedFor (IsFileUnread (S.gives source.now) (S.may_fail source.now) queue size.now)) }
{
    let scan = scan_file(alloc, source, queue, version, size)?;
    print_scan(form, alloc, queue, last, &scan, out)?;
    Ok(scan)
}

/// Prints the lines of a scan. `last` is the number of the file before it, `None` if it is the first.
///
/// # Errors
///
/// `Output` if the output takes no more; `Files` of `Memory`. Nothing is printed then, or a prefix, but not all of it.
fn print_scan<W: Write>(
    form: Form,
    alloc: Global,
    queue: LogQueue,
    last: Option<FileSeq>,
    scan: &FileScan,
    out: &mut W,
) -> PrintResult<()>
    ensures ok { OnOk result (Appends (W.contents out.old) (W.contents out.new)
        (scan_lines form queue last scan.now)) }
    ensures cut_short { OnErr result (IsTextCutShort (W.contents out.old) (W.contents out.new)
        (scan_lines form queue last scan.now)) }
    ensures fault { IfErr result IsUnprinted }
{
    let mut text = String::new(alloc);
    append_scan_in_form(form, alloc, queue, last, scan, &mut text)?;
    write_text(out, text.as_str())
}

/// Appends the lines of a scan, as text or as JSON. `last` is the number of the file before it, `None` if it is the first.
///
/// # Errors
///
/// Fails only if there is no memory. Some lines may then be appended.
fn append_scan_in_form(
    form: Form,
    alloc: Global,
    queue: LogQueue,
    last: Option<FileSeq>,
    scan: &FileScan,
    text: &mut String,
) -> AllocResult<()>
    ensures { OnOk result (string_bytes text.new
        ≡ string_bytes text.old ++ scan_lines form queue last scan.now) }
{
    match form {
        Form::Text => append_scan(queue, last, scan, text),
        Form::Json => append_json_scan(alloc, queue, last, scan, text),
    }
}

/// Prints the end of a check: a line for each queue that has no files, what an opening would do, and the verdict.
///
/// # Errors
///
/// `Output` if the output takes no more; `Files` of `Memory`. Nothing is printed then, or a prefix, but not all of it.
fn print_ending<W: Write>(
    form: Form,
    alloc: Global,
    found: &Findings,
    out: &mut W,
) -> PrintResult<()>
    ensures ok { OnOk result (Appends (W.contents out.old) (W.contents out.new) (ending_lines form found.now)) }
    ensures cut_short { OnErr result (IsTextCutShort (W.contents out.old) (W.contents out.new) (ending_lines form found.now)) }
    ensures fault { IfErr result IsUnprinted }
{
    let mut text = String::new(alloc);
    append_ending_in_form(form, alloc, found, &mut text)?;
    write_text(out, text.as_str())
}

/// Appends the end of a check, as text or as JSON.
///
/// # Errors
///
/// Fails only if there is no memory. Some lines may then be appended.
fn append_ending_in_form(
    form: Form,
    alloc: Global,
    found: &Findings,
    text: &mut String,
) -> AllocResult<()>
    ensures { OnOk result (string_bytes text.new ≡ string_bytes text.old ++ ending_lines form found.now) }
{
    match form {
        Form::Text => append_ending(found, text),
        Form::Json => append_json_ending(alloc, found, text),
    }
}

/// Appends the end of a check as text: a line for each queue that has no files, what an opening would do, and the verdict.
///
/// # Errors
///
/// Fails only if there is no memory. Some lines may then be appended.
fn append_ending(found: &Findings, text: &mut String) -> AllocResult<()>
    ensures { OnOk result (string_bytes text.new ≡ string_bytes text.old ++ ending_text found.now) }
{
    append_no_files_if_empty(LogQueue::Append, found.append_files, text)?;
    append_no_files_if_empty(LogQueue::Rewrite, found.rewrite_files, text)?;
    append_opening(&found.opening, text)?;
    append_verdict(found, text)
}

/// Appends the verdict as a line: `sound`, `damaged`, or `empty`.
///
/// # Errors
///
/// Fails only if there is no memory. Some of the line may then be appended.
fn append_verdict(found: &Findings, text: &mut String) -> AllocResult<()>
    ensures { OnOk result (string_bytes text.new ≡ string_bytes text.old ++ (verdict_word found.now ++ codes "\n")) }
{
    let word = found.verdict();
    writeln!(text, "{word}")
}
