//! The program `raftlog batch` and `raftlog recover`, over any reader and writers. It reads each file as a
//! whole.

ghost use Rattle.std.specs.Prelude.{◌≡◌, ◌≢◌, ◌≤◌, ◌↔◌, ◌⊎◌, ℕ, List, OnOk, IfErr, map, string_bytes};
ghost use Rattle.raft_recover.specs.Common.{Keeps, error_kind, AsksNothing, IsAsked, IsPrinted, IsFrontPrinted};

use crate::ending::{Program, Status};
use crate::recovery::recover_bytes;
use crate::request::{Request, read_files};
use raft_base::Result;
use raft_records::print_batch;
use std::io::{ErrorKind, Read, Write};
use std::rt::{Env, Files};
use std::thread::Threads;
use std::{env, io};

/// The name of the program, and the hint at its words.
pub(crate) const RAFTLOG: Program = Program {
    name: "raftlog",
    usage: "\
usage: raftlog batch <queue> <seq> <version>
       raftlog recover <queue> <version> <workers> <seq>=<path>..

batch prints the items of an item batch, which it reads from standard input
recover prints the tables that log files give

<queue>    append or rewrite: to which of the two the files belong
<seq>      the number of a file; files are given by rising numbers
<version>  1 or 2: the format version of the files
<workers>  1 to 256: how many threads read the files at most
<path>     where a file is
",
};

/// Does what `words`, those of a command line, ask for, and returns the status with which to end the process:
/// 0 if it is done, 1 if it is refused, 2 if the words ask for nothing. `batch` reads from `input`, and what
/// is asked for is printed on `out`. A refusal, and a hint at the words, are printed on `err`; if that fails,
/// the status is the same. Each file is read as a whole; [`run_in_pieces`](crate::run_in_pieces) needs less
/// memory.
pub fn run<S: Files + AllocGlobal + Threads + Sync, R: Read, W: Write, E: Write>(
    rt: &S,
    words: &[String],
    input: &mut R,
    out: &mut W,
    err: &mut E,
) -> u8
    ensures known { result ≤ 2 }
    ensures done { result ≡ 0 → IsPrinted (map string_bytes words.now)
        (R.remaining input.old) (W.contents out.old) (W.contents out.new) }
    ensures silent { result ≡ 1
        → Keeps (W.contents out.old) (W.contents out.new)
        ⊎ IsFrontPrinted (map string_bytes words.now) (R.remaining input.old)
        (R.remaining input.new) (W.contents out.old) (W.contents out.new) }
    ensures misused { (result ≡ 2) ↔ AsksNothing (map string_bytes words.now) }
    ensures untouched { result ≡ 2 → Keeps (W.contents out.old) (W.contents out.new) }
    ensures quiet { result ≡ 0 → Keeps (E.contents err.old) (E.contents err.new) }
{
    let request = match Request::parse(rt.alloc(), words) {
        Ok(Some(request)) => request,
        Ok(None) => return RAFTLOG.print_usage(err),
        Err(memory) => return RAFTLOG.print_refusal(&memory, err),
    };
    match answer_request(rt, request, input, out) {
        Ok(()) => Status::Done as u8,
        Err(error) => RAFTLOG.print_refusal(&error, err),
    }
}

/// Returns the words of the process's command line after the program's name.
///
/// # Errors
///
/// `OutOfMemory` for lack of memory; `InvalidData` for a word that isn't UTF-8.
pub fn command_words<S: Env + AllocGlobal>(rt: &S) -> io::Result<Vec<String>> {
    let mut words = Vec::new(rt.alloc());
    for word in env::args(rt)?.skip(1) {
        words.push(word)?;
    }
    Ok(words)
}

/// Reports on `err` that the words of the command line couldn't be read, and returns the status with which to
/// end the process. `error` is that of [`command_words`]. If it is lack of memory, it is printed as a
/// refusal, and 1 is returned; else, as for a word that isn't UTF-8, a hint at the words is printed, and 2 is
/// returned.
pub fn run_without_words<E: Write>(error: &io::Error, err: &mut E) -> u8
    ensures memory { error_kind error.now ≡ ErrorKind.OutOfMemory → result ≡ 1 }
    ensures misused { error_kind error.now ≢ ErrorKind.OutOfMemory → result ≡ 2 }
{
    RAFTLOG.report_unreadable_words(error, err)
}

/// Prints what `request` asks for on `out`. Files are read as a whole.
///
/// # Errors
///
/// Those of [`print_batch`], or of reading the files and [`recover_bytes`]. A part of the lines, from the
/// first byte on, may have been printed then.
fn answer_request<S: Files + AllocGlobal + Threads + Sync, R: Read, W: Write>(
    rt: &S,
    request: Request<'_>,
    input: &mut R,
    out: &mut W,
) -> Result<()>
    ensures done { (words : List (List ℕ)) → IsAsked words request.entry
        → OnOk result
        (IsPrinted words (R.remaining input.old) (W.contents out.old) (W.contents out.new)) }
    ensures silent { (words : List (List ℕ)) → IsAsked words request.entry
        → IfErr result (λ _. Keeps (W.contents out.old) (W.contents out.new)
        ⊎ IsFrontPrinted words (R.remaining input.old) (R.remaining input.new) (W.contents out.old)
        (W.contents out.new)) }
{
    match request {
        Request::Batch(context) => print_batch(rt.alloc(), input, out, &context),
        Request::Recover(ask) => {
            let files = read_files(rt, ask.paths.as_slice())?;
            let alloc = rt.alloc();
            recover_bytes(rt, alloc, ask.queue, ask.version, ask.workers, files, out)
        }
    }
}
