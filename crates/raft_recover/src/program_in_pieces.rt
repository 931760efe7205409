//! The program `raftlog batch` and `raftlog recover`, which reads files in pieces.

ghost use Rattle.std.specs.Prelude.{◌≡◌, ◌≤◌, ◌↔◌, ◌⊎◌, ℕ, List, OnOk, IfErr, map, string_bytes};
ghost use Rattle.raft_recover.specs.Common.{Keeps, AsksNothing, AsksRecovery, IsAsked, IsPrinted, IsFrontPrinted, IsRecoveryFrontPrinted, IsRecoveryPrinted, asks_for};

use crate::ending::Status;
use crate::named_files::{print_named_files, sizes_of_files};
use crate::program::RAFTLOG;
use crate::recovery::recover_bytes;
use crate::request::{RecoverWords, Request, read_files};
use crate::shared_files::SharedFiles;
use raft_base::Result;
use raft_records::print_batch;
use std::io::{Read, Write};
use std::rt::Files;
use std::thread::Threads;

/// Does what `words`, those of a command line, ask for, as [`run`](crate::run) does, but workers read the
/// files in pieces: each has no more than a piece of 4 MiB, or a longer batch, in memory. If a file can't be
/// read at an offset, as a pipe, or the numbers of the files don't rise, all are read as a whole. A file that
/// ends before the length that it had at first is refused as `io`.
///
/// Returns the status with which to end the process: 0 if it is done, 1 if it is refused, 2 if the words ask
/// for nothing.
pub fn run_in_pieces<
    S: SharedFiles + Files + AllocGlobal + Threads + Sync,
    R: Read,
    W: Write,
    E: Write,
>(rt: &S, words: &[String], input: &mut R, out: &mut W, err: &mut E) -> u8
    ensures known { result ≤ 2 }
    ensures done { result ≡ 0 → IsPrinted (map string_bytes words.now)
        (R.remaining input.old) (W.contents out.old) (W.contents out.new) }
    ensures silent { result ≡ 1
        → Keeps (W.contents out.old) (W.contents out.new)
        ⊎ IsFrontPrinted (map string_bytes words.now) (R.remaining input.old)
        (R.remaining input.new) (W.contents out.old) (W.contents out.new) }
    ensures misused { (result ≡ 2) ↔ AsksNothing (map string_bytes words.now) }
    ensures untouched { result ≡ 2 → Keeps (W.contents out.old) (W.contents out.new) }
    ensures quiet { result ≡ 0 → Keeps (E.contents err.old) (E.contents err.new) }
{
    let request = match Request::parse(rt.alloc(), words) {
        Ok(Some(request)) => request,
        Ok(None) => return RAFTLOG.print_usage(err),
        Err(memory) => return RAFTLOG.print_refusal(&memory, err),
    };
    match answer_request_in_pieces(rt, request, input, out) {
        Ok(()) => Status::Done as u8,
        Err(error) => RAFTLOG.print_refusal(&error, err),
    }
}

/// Prints what `request` asks for on `out`. Files are read in pieces, if they can be.
///
/// # Errors
///
/// Those of [`print_batch`], or of reading the files and recovering them. A part of the lines, from the first
/// byte on, may have been printed then.
fn answer_request_in_pieces<
    S: SharedFiles + Files + AllocGlobal + Threads + Sync,
    R: Read,
    W: Write,
>(rt: &S, request: Request<'_>, input: &mut R, out: &mut W) -> Result<()>
    ensures done { (words : List (List ℕ)) → IsAsked words request.entry
        → OnOk result
        (IsPrinted words (R.remaining input.old) (W.contents out.old) (W.contents out.new)) }
    ensures silent { (words : List (List ℕ)) → IsAsked words request.entry
        → IfErr result (λ _. Keeps (W.contents out.old) (W.contents out.new)
        ⊎ IsFrontPrinted words (R.remaining input.old) (R.remaining input.new) (W.contents out.old)
        (W.contents out.new)) }
{
    match request {
        Request::Batch(context) => print_batch(rt.alloc(), input, out, &context),
        Request::Recover(ask) => print_tables(rt, &ask, out),
    }
}

/// Prints the tables of the files that `ask` names on `out`. They are read as a whole if they can't be read
/// in pieces.
///
/// # Errors
///
/// Those of reading the files, of recovering and of printing them. A part of the lines, from the first byte
/// on, may have been printed then.
fn print_tables<S: SharedFiles + Files + AllocGlobal + Threads + Sync, W: Write>(
    rt: &S,
    ask: &RecoverWords<'_>,
    out: &mut W,
) -> Result<()>
    ensures done { (words : List (List ℕ)) → AsksRecovery words (asks_for ask.now)
        → OnOk result (IsRecoveryPrinted words (W.contents out.old) (W.contents out.new)) }
    ensures silent { (words : List (List ℕ)) → AsksRecovery words (asks_for ask.now)
        → IfErr result (λ _. Keeps (W.contents out.old) (W.contents out.new)
        ⊎ IsRecoveryFrontPrinted words (W.contents out.old) (W.contents out.new)) }
{
    let alloc = rt.alloc();
    let paths = ask.paths.as_slice();
    if let Some(sizes) = sizes_of_files(rt, alloc, paths)? {
        return print_named_files(rt, alloc, ask, sizes.as_slice(), out);
    }
    let files = read_files(rt, paths)?;
    recover_bytes(rt, alloc, ask.queue, ask.version, ask.workers, files, out)
}
