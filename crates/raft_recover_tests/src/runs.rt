//! Tests whole runs of the program: the status, what is printed, and the error stream.

use raft_base::Result;
use raft_recover::{SharedFiles, run, run_in_pieces, run_without_words};
use raft_trials::again;
use std::alloc::Global;
use std::io::{ErrorKind, Read, Write};
use std::rt::Files;
use std::thread::Threads;
use std::{fs, io};

const OPEN: &str = "batch append 12 1";

const CORRUPTION: &str = "raftlog: refused: corruption\n";

const WORKERS: &str = "raftlog: refused: invalid-argument\n";

/// The arguments, the input in base 16, the status, what is printed, and how the error stream begins.
type Row = (&'static str, &'static str, u8, &'static str, &'static str);

static ROWS: [Row; 36] = [
    (OPEN, "010102015a800bdd", 0, "1 clean\nitems 1 rest 0\n", ""),
    (
        "batch append 0 1",
        "010102015a800bdd",
        0,
        "1 clean\nitems 1 rest 0\n",
        "",
    ),
    ("batch append 12 2", "0081ef02d2", 0, "items 0 rest 0\n", ""),
    (
        "batch append 0012 2",
        "0081ef02d2",
        0,
        "items 0 rest 0\n",
        "",
    ),
    (
        "batch rewrite 18446744073709551615 1",
        "01ac020202808080808020d30bf641",
        0,
        "300 compact 1099511627776\nitems 1 rest 0\n",
        "",
    ),
    (
        OPEN,
        "0101020307c6ab33f5",
        0,
        "1 truncate 7\nitems 1 rest 0\n",
        "",
    ),
    (
        OPEN,
        "0201030103707574057075745f7601030200f3f946a8",
        0,
        "1 put 707574 7075745f76\n1 del -\nitems 2 rest 0\n",
        "",
    ),
    (
        OPEN,
        "020701030a010203080102010405dc308b52",
        0,
        "7 entries 3 first 10 tail 3\n8 entries 2 first 1 tail 5\nitems 2 rest 0\n",
        "",
    ),
    (
        OPEN,
        "01070100bd9fac85",
        0,
        "7 entries 0\nitems 1 rest 0\n",
        "",
    ),
    (OPEN, "00aabb75e71af7", 0, "items 0 rest 2\n", ""),
    ("batch append 13 2", "0081ef02d2", 1, "", CORRUPTION),
    (OPEN, "", 1, "", CORRUPTION),
    (OPEN, "8def02d2", 1, "", CORRUPTION),
    (OPEN, "010102015a800bde", 1, "", CORRUPTION),
    (OPEN, "0101020001305d7d37", 1, "", CORRUPTION),
    (OPEN, "80ad6cba3f", 1, "", "raftlog: refused: codec\n"),
    ("", "", 2, "", "usage: raftlog"),
    ("batch append x 1", "", 2, "", "usage: raftlog"),
    ("batch append +12 1", "", 2, "", "usage: raftlog"),
    (
        "batch append 18446744073709551616 1",
        "",
        2,
        "",
        "usage: raftlog",
    ),
    ("batch append 12 01", "", 2, "", "usage: raftlog"),
    ("batch append 12", "", 2, "", "usage: raftlog"),
    ("batch append 12 1 1", "", 2, "", "usage: raftlog"),
    ("recover append 1 1", "", 0, "cleaned -\nlive 0 0\n", ""),
    ("recover rewrite 2 256", "", 0, "cleaned -\nlive 0 0\n", ""),
    ("recover append 1 0", "", 1, "", WORKERS),
    ("recover append 1 257", "", 1, "", WORKERS),
    (
        "recover append 1 0 12=absent",
        "",
        1,
        "",
        "raftlog: refused: io\n",
    ),
    (
        "recover append 1 1 12=",
        "",
        1,
        "",
        "raftlog: refused: io\n",
    ),
    (
        "recover append 1 1 12=.",
        "",
        1,
        "",
        "raftlog: refused: io\n",
    ),
    (
        "recover append 1 1 12=/dev/null",
        "",
        0,
        "cleaned -\nlive 0 0\n",
        "",
    ),
    ("recover append 3 1", "", 2, "", "usage: raftlog"),
    ("recover append 1 -1", "", 2, "", "usage: raftlog"),
    ("recover append 1", "", 2, "", "usage: raftlog"),
    ("recover append 1 1 absent", "", 2, "", "usage: raftlog"),
    ("recover append 1 1 x=absent", "", 2, "", "usage: raftlog"),
];

/// The way in which files are read that the arguments name.
#[derive(Clone, Copy, Debug)]
enum Way {
    Whole,
    InPieces,
}

const WAYS: [Way; 2] = [Way::Whole, Way::InPieces];

/// What came of a run.
#[derive(Drop)]
struct Answer {
    status: u8,
    out: Vec<u8>,
    err: Vec<u8>,
}

impl Answer {
    /// Tests whether a run has ended with this status, has printed `out`, and errors that begin with `err`, or none if
    /// that is empty.
    fn is_as(&self, status: u8, out: &str, err: &str) -> bool {
        self.status == status
            && self.out.as_slice() == out.as_bytes()
            && self.err.as_slice().starts_with(err.as_bytes())
            && self.err.is_empty() == err.is_empty()
    }

    /// Tests whether the run found no memory. Within a reader or a writer that shows as an io error.
    fn found_no_memory(&self) -> bool {
        self.is_as(1, "", "raftlog: refused: memory\n")
            || self.is_as(1, "", "raftlog: refused: io\n")
    }
}

/// Returns the words of a line, and behind them others, which may have spaces.
fn words_of_line(alloc: Global, line: &str, others: &[&str]) -> Result<Vec<String>> {
    let mut words = Vec::new(alloc);
    for word in line.split_whitespace() {
        words.push(String::from_str(alloc, word)?)?;
    }
    for &word in others {
        words.push(String::from_str(alloc, word)?)?;
    }
    Ok(words)
}

/// Runs the program with the words of a line and others, over an input in base 16; `None` where there is no memory for
/// these.
fn run_with_words<S: SharedFiles + Files + AllocGlobal + Threads + Sync>(
    rt: &S,
    way: Way,
    line: &str,
    others: &[&str],
    input: &str,
) -> Option<Answer> {
    let words = words_of_line(rt.alloc(), line, others).ok()?;
    let bytes = hex::decode(rt.alloc(), input).ok()?;
    let mut input = bytes.as_slice();
    run_and_collect(rt, way, words.as_slice(), &mut input)
}

/// Runs the program with these arguments, and returns what came of it.
fn run_and_collect<S: SharedFiles + Files + AllocGlobal + Threads + Sync, R: Read>(
    rt: &S,
    way: Way,
    words: &[String],
    input: &mut R,
) -> Option<Answer> {
    let mut err = Vec::with_capacity(rt.alloc(), 1024).ok()?;
    let mut out = Vec::new(rt.alloc());
    let status = match way {
        Way::Whole => run(rt, words, input, &mut out, &mut err),
        Way::InPieces => run_in_pieces(rt, words, input, &mut out, &mut err),
    };
    Some(Answer { status, out, err })
}

/// Tests whether a run with these arguments gives what a row says. Where it finds no memory it is made again, and has
/// to find some.
fn is_row_answered<S: SharedFiles + Files + AllocGlobal + Threads + Sync>(
    rt: &S,
    way: Way,
    row: &Row,
) -> bool {
    let (line, input, status, out, err) = *row;
    let mut answer = run_with_words(rt, way, line, &[], input);
    if answer
        .as_ref()
        .is_none_or(|answer| answer.found_no_memory())
    {
        answer = run_with_words(rt, way, line, &[], input);
    }
    answer.is_some_and(|answer| answer.is_as(status, out, err))
}

/// Returns the rows of runs.
fn rows_of_runs() -> &'static [Row] {
    &ROWS
}

/// Tests the status and the output of the program for each row of arguments and input.
#[test]
fn each_run_answers_as_its_row_says(rt: HostRuntime) {
    for way in WAYS {
        for row in rows_of_runs() {
            assert!(rt;
                is_row_answered(&rt, way, row),
                "{way:?}, {}: {}",
                row.0,
                row.1
            );
        }
    }
}

/// A reader that returns one byte, and then fails.
#[derive(Drop)]
struct Torn {
    read: bool,
}

impl Read for Torn {
    /// Reads one byte, 0, at the first call.
    ///
    /// # Errors
    ///
    /// `Other` at each further call.
    fn read(&mut self, buf: &mut [u8]) -> io::Result<usize> {
        if self.read || buf.is_empty() {
            return Err(io::Error::new(ErrorKind::Other, "torn"));
        }
        self.read = true;
        buf[0] = 0;
        Ok(1)
    }
}

/// A writer that takes nothing.
#[derive(Drop)]
struct Closed;

impl Write for Closed {
    /// Takes nothing.
    ///
    /// # Errors
    ///
    /// `BrokenPipe`, always.
    fn write(&mut self, _buf: &[u8]) -> io::Result<usize> {
        Err(io::Error::new(ErrorKind::BrokenPipe, "closed"))
    }

    /// Does nothing.
    fn flush(&mut self) -> io::Result<()> {
        Ok(())
    }
}

/// Tests the status of runs whose input fails, or whose output can't be written.
#[test]
fn a_failing_input_or_output_ends_the_run(rt: HostRuntime) {
    if let Ok(words) = words_of_line(rt.alloc(), OPEN, &[]) {
        assert!(rt; is_failing_input_refused(&rt, words.as_slice()));
        assert_eq!(rt; status_without_output(&rt, words.as_slice()), 1);
        assert_eq!(rt; status_without_output(&rt, &[]), 2);
    }
}

/// Tests whether a run whose input fails is refused with that error. Where it finds no memory it is made again, and has
/// to find some.
fn is_failing_input_refused<S: SharedFiles + Files + AllocGlobal + Threads + Sync>(
    rt: &S,
    words: &[String],
) -> bool {
    let mut answer = run_and_collect(rt, Way::Whole, words, &mut Torn { read: false });
    if answer
        .as_ref()
        .is_none_or(|answer| answer.found_no_memory())
    {
        answer = run_and_collect(rt, Way::Whole, words, &mut Torn { read: false });
    }
    answer.is_some_and(|answer| answer.is_as(1, "", "raftlog: refused: io\n"))
}

/// Tests whether arguments that can't be read, with an error of a kind, end a run with this status and this text on the
/// error stream.
fn does_run_end_without_words(
    alloc: Global,
    kind: ErrorKind,
    status: u8,
    err: &str,
) -> Result<bool> {
    let mut said = Vec::with_capacity(alloc, 1024)?;
    let ended = run_without_words(&io::Error::from(kind), &mut said);
    Ok(ended == status && said.as_slice().starts_with(err.as_bytes()))
}

/// Tests the status and the message of runs whose arguments can't be read.
#[test]
fn arguments_that_cannot_be_read_end_the_run(rt: HostRuntime) {
    for &(kind, status, err) in &[
        (ErrorKind::OutOfMemory, 1, "raftlog: refused: memory\n"),
        (ErrorKind::InvalidData, 2, "usage: raftlog"),
    ] {
        let ended = again!(does_run_end_without_words(rt.alloc(), kind, status, err));
        assert!(rt; matches!(ended, Ok(true)));
    }
}

/// Returns the status of a run that can't print.
fn status_without_output<S: SharedFiles + Files + AllocGlobal + Threads + Sync>(
    rt: &S,
    words: &[String],
) -> u8 {
    let mut input = b"\x00\x8d\xef\x02\xd2".as_slice();
    run(rt, words, &mut input, &mut Closed, &mut Closed)
}

/// A log batch of version 1 in file 12: two entries of region 7.
const TWO_ENTRIES: &str = "00000000000022000000000000000017616263c2412435010701020a0203a7b3df17";

const TWO_LINES: &str = "7 entries 10..12 keys 0 append 12 rewrite -\ncleaned -\nlive 2 0\n";

/// A log batch of version 1: region 1 with `Clean`.
const CLEAN: &str = "00000000000018000000000000000010010102015a800bdd";

const BOTH_LINES: &str = "7 entries 10..12 keys 0 append 12 rewrite -\ncleaned 1\nlive 2 0\n";

/// The paths of files, and their batches in base 16. One path has a `=`; two begin or end with a space, and there is no
/// file at the path without the space.
const FILES: [(&str, &str); 4] = [
    ("two_entries.log", TWO_ENTRIES),
    ("clean=1.log", CLEAN),
    (" spaced.log", TWO_ENTRIES),
    ("spaced.log ", CLEAN),
];

/// Arguments that name files, how many bytes each file has at most, the status, what is printed, and how the error
/// stream begins.
type FileRow = (
    &'static [&'static str],
    usize,
    u8,
    &'static str,
    &'static str,
);

const FILE_ROWS: [FileRow; 8] = [
    (&["12=two_entries.log"], 0, 0, "cleaned -\nlive 0 0\n", ""),
    (&["12=two_entries.log"], 33, 1, "", CORRUPTION),
    (&["12=two_entries.log"], 34, 0, TWO_LINES, ""),
    (&["12=clean=1.log"], 34, 0, "cleaned 1\nlive 0 0\n", ""),
    (
        &["012=two_entries.log", "13=clean=1.log"],
        34,
        0,
        BOTH_LINES,
        "",
    ),
    (&["12= spaced.log", "13=spaced.log "], 34, 0, BOTH_LINES, ""),
    (
        &["12=two_entries.log", "12=clean=1.log"],
        34,
        0,
        BOTH_LINES,
        "",
    ),
    (
        &["13=clean=1.log", "12=two_entries.log"],
        34,
        1,
        "",
        CORRUPTION,
    ),
];

/// Writes files with the first bytes of their batches, runs the program, and returns what came of it.
fn run_on_files<S: SharedFiles + Files + AllocGlobal + Threads + Sync>(
    rt: &S,
    way: Way,
    line: &str,
    files: &[&str],
    length: usize,
) -> Option<Answer> {
    for &(path, digits) in &FILES {
        write_file(rt, path, digits, length)?;
    }
    let answer = run_with_words(rt, way, line, files, "");
    for &(path, _) in &FILES {
        fs::remove_file(rt, path).ok()?;
    }
    answer
}

/// Writes a file with the first `length` of the bytes that `digits` are in base 16.
fn write_file<S: Files + AllocGlobal>(
    rt: &S,
    path: &str,
    digits: &str,
    length: usize,
) -> Option<()> {
    let mut bytes = hex::decode(rt.alloc(), digits).ok()?;
    bytes.truncate(length);
    fs::write(rt, path, bytes.as_slice()).ok()
}

/// Tests whether a run over files gives what a row says. Where it finds no memory it is made again, and has to find
/// some.
fn is_file_row_answered<S: SharedFiles + Files + AllocGlobal + Threads + Sync>(
    rt: &S,
    way: Way,
    line: &str,
    row: &FileRow,
) -> bool {
    let (files, length, status, out, err) = *row;
    let mut answer = run_on_files(rt, way, line, files, length);
    if answer
        .as_ref()
        .is_none_or(|answer| answer.found_no_memory())
    {
        answer = run_on_files(rt, way, line, files, length);
    }
    answer.is_some_and(|answer| answer.is_as(status, out, err))
}

/// Tests each row with one worker and with two.
#[test]
fn files_are_read_at_their_paths(rt: HostRuntime) {
    for &line in &["recover append 1 1", "recover append 1 2"] {
        for way in WAYS {
            for row in &FILE_ROWS {
                let (files, length, ..) = *row;
                assert!(rt;
                    is_file_row_answered(&rt, way, line, row),
                    "{way:?}, {line} {files:?}: {length} bytes"
                );
            }
        }
    }
}
