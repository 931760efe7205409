//! The program `raft_scan`, over any writers.

ghost use Rattle.std.specs.Prelude.{◌≡◌, ◌≢◌, ◌≤◌, ◌↔◌, ◌⊎◌, ◌++◌, true, false, List, ℕ, IfOk, IfErr, OnErr, IfSome, IfNone, map, string_bytes};
ghost use Rattle.raft_recover.specs.Common.{Keeps, error_kind, AskedScan, NamesFiles, AsksScan, AsksNoScan, AreScanned, IsScanPrinted, IsScanFrontPrinted, scan_asked, file_shown};

use crate::ending::{Program, Status};
use crate::request::{parse_paths, parse_queue, parse_version, read_files};
use crate::scan::{append_scan, are_both_true};
use raft_base::{Error, FileId, FileSeq, LogQueue, Result, Version};
use raft_records::{FilePart, write_whole};
use std::alloc::Global;
use std::io;
use std::io::{ErrorKind, Write};
use std::rt::Files;

/// The first word of a command line by which a scan goes on past a batch that can't be read.
const PAST_DAMAGE: &str = "--past-damage";

/// The name of the program, and the hint at its words.
const SCAN: Program = Program {
    name: "raft_scan",
    usage: "usage: raft_scan [--past-damage] <queue> <version> <seq>=<path>..\n",
};

/// What the words of a command line say that ask for a scan of files.
#[derive(Drop)]
pub struct ScanWords<'a> {
    /// Whether the scan goes on past a batch that can't be read.
    pub past_damage: bool,
    /// The queue of all files.
    pub queue: LogQueue,
    /// The format version of all files.
    pub version: Version,
    /// The number and the path of each file.
    pub paths: Vec<(FileSeq, &'a str)>,
}

/// Scans the files that `words`, those of a command line, name, and prints what is found on `out`. Returns
/// the status with which to end the process: 0 if everything can be read, 1 if something can't, 2 if the
/// words ask for no scan. A refusal, and a hint at the words, are printed on `err`; if that fails, the status
/// is the same.
pub fn run_scan<S: Files + AllocGlobal, W: Write, E: Write>(
    rt: &S,
    words: &[String],
    out: &mut W,
    err: &mut E,
) -> u8
    ensures known { result ≤ 2 }
    ensures undamaged { result ≡ 0 → IsScanPrinted true (map string_bytes words.now)
        (W.contents out.old) (W.contents out.new) }
    ensures damaged { result ≡ 1 → Keeps (W.contents out.old) (W.contents out.new)
        ⊎ IsScanFrontPrinted (map string_bytes words.now) (W.contents out.old) (W.contents out.new)
        ⊎ IsScanPrinted false (map string_bytes words.now)
        (W.contents out.old) (W.contents out.new) }
    ensures misused { (result ≡ 2) ↔ AsksNoScan (map string_bytes words.now) }
    ensures untouched { result ≡ 2 → Keeps (W.contents out.old) (W.contents out.new) }
{
    let scan = match parse_scan_request(rt.alloc(), words) {
        Ok(Some(scan)) => scan,
        Ok(None) => return SCAN.print_usage(err),
        Err(memory) => return SCAN.print_refusal(&memory, err),
    };
    match print_scan(rt, scan, out) {
        Ok(true) => Status::Done as u8,
        Ok(false) => Status::Refused as u8,
        Err(error) => SCAN.print_refusal(&error, err),
    }
}

/// Reports on `err` that the words of the command line couldn't be read, and returns the status with which to
/// end the process. If `error` is lack of memory, it prints that as a refusal, and returns 1; else, as for a
/// word that isn't UTF-8, it prints a hint at the words, and returns 2.
pub fn scan_without_words<E: Write>(error: &io::Error, err: &mut E) -> u8
    ensures memory { error_kind error.now ≡ ErrorKind.OutOfMemory → result ≡ 1 }
    ensures misused { error_kind error.now ≢ ErrorKind.OutOfMemory → result ≡ 2 }
{
    SCAN.report_unreadable_words(error, err)
}

/// Returns the scan that the words `[--past-damage] <queue> <version> <seq>=<path>..` ask for, or `None` for
/// other words.
///
/// # Errors
///
/// `Memory` alone, and only if the words ask for one.
fn parse_scan_request<'a>(alloc: Global, words: &'a [String]) -> Result<Option<ScanWords<'a>>>
    ensures asked { IfOk result (λ r. IfSome r (λ scan.
        AsksScan (map string_bytes words.now) (scan_asked scan))) }
    ensures refused { IfOk result (λ r. IfNone r (AsksNoScan (map string_bytes words.now))) }
    ensures memory { IfErr result
        (λ e. (e ≡ Error.Memory) × (AsksNoScan (map string_bytes words.now) → ⊥)) }
{
    let [first, rest @ ..] = words else {
        return Ok(None);
    };
    if first.as_str() == PAST_DAMAGE {
        return parse_scanned_files(alloc, true, rest);
    }
    parse_scanned_files(alloc, false, words)
}

/// Returns the scan of the files that the words `<queue> <version> <seq>=<path>..` name, or `None` for other
/// words. `past` says whether it goes on past damage.
///
/// # Errors
///
/// `Memory` alone, and only if the words name files.
fn parse_scanned_files(alloc: Global, past: bool, words: &[String]) -> Result<Option<ScanWords<'_>>>
    ensures asked { IfOk result (λ r. IfSome r (λ scan. (scan.past_damage ≡ past)
        × NamesFiles (map string_bytes words.now) (scan_asked scan))) }
    ensures refused { IfOk result (λ r. IfNone r
        ((scan : AskedScan) → NamesFiles (map string_bytes words.now) scan → ⊥)) }
    ensures memory { IfErr result (λ e. (e ≡ Error.Memory)
        × (scan : AskedScan) × (scan.past_damage ≡ past)
        × NamesFiles (map string_bytes words.now) scan) }
{
    let [queue, version, path_words @ ..] = words else {
        return Ok(None);
    };
    let Some(queue) = parse_queue(queue.as_str()) else {
        return Ok(None);
    };
    let Some(version) = parse_version(version.as_str()) else {
        return Ok(None);
    };
    let Some(paths) = parse_paths(alloc, path_words)? else {
        return Ok(None);
    };
    Ok(Some(ScanWords {
        past_damage: past,
        queue,
        version,
        paths,
    }))
}

/// Reads the files of `scan`, scans them, and prints what is found on `out`. Returns whether everything can
/// be read.
///
/// # Errors
///
/// `Io` if a file can't be read or the writer fails; `Memory`. A part of the lines, from the first byte on,
/// may have been printed then.
fn print_scan<S: Files + AllocGlobal, W: Write>(
    rt: &S,
    scan: ScanWords<'_>,
    out: &mut W,
) -> Result<bool>
    ensures done { (words : List (List ℕ)) → AsksScan words (scan_asked scan.entry)
        → IfOk result
        (λ undamaged. IsScanPrinted undamaged words (W.contents out.old) (W.contents out.new)) }
    ensures silent { (words : List (List ℕ)) → AsksScan words (scan_asked scan.entry)
        → OnErr result (Keeps (W.contents out.old) (W.contents out.new)
        ⊎ IsScanFrontPrinted words (W.contents out.old) (W.contents out.new)) }
{
    let files = read_files(rt, scan.paths.as_slice())?;
    let mut text = String::new(rt.alloc());
    let undamaged = append_scans(rt.alloc(), &scan, files, &mut text)?;
    write_whole(out, text.as_bytes())?;
    Ok(undamaged)
}

/// Appends the lines of scans of `files`, which have the numbers and the bytes that are given, one after
/// another, to `text`. `scan` says of which queue and version they are, and whether to go on past damage.
/// Returns whether everything can be read.
///
/// # Errors
///
/// `Memory` alone. Some lines may have been appended then.
fn append_scans(
    alloc: Global,
    scan: &ScanWords<'_>,
    files: Vec<(FileSeq, Vec<u8>)>,
    text: &mut String,
) -> Result<bool>
    ensures ok { IfOk result (λ undamaged. (lines : List ℕ)
        × (string_bytes text.new ≡ string_bytes text.old ++ lines)
        × AreScanned scan.entry.now.past_damage scan.entry.now.queue scan.entry.now.version
        (map file_shown files.items) undamaged lines) }
    ensures memory { IfErr result (λ e. e ≡ Error.Memory) }
{
    let mut all_undamaged = true;
    for (seq, bytes) in files {
        let part = FilePart::new(FileId::new(scan.queue, seq), scan.version, 0, bytes)?;
        let undamaged = append_scan(alloc, &part, scan.past_damage, text)?;
        all_undamaged = are_both_true(all_undamaged, undamaged);
    }
    Ok(all_undamaged)
}
