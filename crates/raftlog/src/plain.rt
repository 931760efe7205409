//! `recover --plain`: what `recover` prints, by a slow program that does what the definitions say.

ghost use Rattle.std.specs.Prelude.{◌≡◌, ◌<◌, ◌≤◌, ◌⊎◌, ℕ, List, IfErr, IsTrue, OnOk, length, map, string_bytes};
ghost use Rattle.std.specs.Io.KnownBytes.{Keeps};
ghost use Rattle.raft_recover.specs.AskedRequests.{asks_for};
ghost use Rattle.raft_recover.specs.Programs.{IsRecoveryFrontPrinted, IsRecoveryPrinted};
ghost use Rattle.raft_recover.specs.Requests.{AsksNothing, AsksRecovery};

use raft_plain::print_files_plainly;
use raft_recover::request::{RecoverWords, Request, read_files};
use raft_recover::{Error, MAX_WORKERS, Result, refusal, run_without_words};
use std::io;
use std::io::{ErrorKind, Write};
use std::rt::Files;

/// Tests whether the words of a command line begin with `recover --plain`. If they do, there are at least two of them.
pub(crate) fn asks_for_plain_recovery(words: &[String]) -> bool
    ensures { IsTrue result → 1 < length words.now }
{
    let [command, option, ..] = words else {
        return false;
    };
    command.as_str() == "recover" && option.as_str() == "--plain"
}

/// Recovers files by the slow program, and prints their tables on `out`. `words` are those of `recover`, without `--plain`. Returns the
/// status to end with: 0 if it is done, 1 if it is refused, 2 if the words ask for no recovery. A refusal, and a hint at the right words,
/// is a line on `err`. After 1 the first lines may be printed on `out`, after 2 none is.
pub(crate) fn run_plain_recovery<S: Files + AllocGlobal, W: Write, E: Write>(
    rt: &S,
    words: &[String],
    out: &mut W,
    err: &mut E,
) -> u8
    ensures known { result ≤ 2 }
    ensures done { result ≡ 0
        → IsRecoveryPrinted (map string_bytes words.now) (W.contents out.old) (W.contents out.new) }
    ensures silent { result ≡ 1 → Keeps (W.contents out.old) (W.contents out.new)
        ⊎ IsRecoveryFrontPrinted (map string_bytes words.now) (W.contents out.old) (W.contents out.new) }
    ensures misused { AsksNothing (map string_bytes words.now) → result ≡ 2 }
    ensures untouched { result ≡ 2 → Keeps (W.contents out.old) (W.contents out.new) }
    ensures quiet { result ≡ 0 → Keeps (E.contents err.old) (E.contents err.new) }
{
    let asked = match Request::parse(rt.alloc(), words) {
        Ok(Some(Request::Recover(asked))) => asked,
        Ok(_) => return run_without_words(&io::Error::from(ErrorKind::InvalidInput), err),
        Err(memory) => return refuse_recovery(&memory, err),
    };
    match recover_and_print(rt, &asked, out) {
        Ok(()) => 0,
        Err(error) => refuse_recovery(&error, err),
    }
}

/// Reads the files that `asked` names, and prints their tables on `out`.
///
/// # Errors
///
/// `Io` if a file can't be read, or the output takes no more; `InvalidArgument` unless there are 1 to 256 workers; the refusals of a
/// recovery; `Memory`. Some lines may be printed then.
fn recover_and_print<S: Files + AllocGlobal, W: Write>(
    rt: &S,
    asked: &RecoverWords<'_>,
    out: &mut W,
) -> Result<()>
    ensures done { (words : List (List ℕ)) → AsksRecovery words (asks_for asked.now)
        → OnOk result (IsRecoveryPrinted words (W.contents out.old) (W.contents out.new)) }
    ensures silent { (words : List (List ℕ)) → AsksRecovery words (asks_for asked.now)
        → IfErr result (λ _. Keeps (W.contents out.old) (W.contents out.new)
        ⊎ IsRecoveryFrontPrinted words (W.contents out.old) (W.contents out.new)) }
{
    let files = read_files(rt, asked.paths.as_slice())?;
    if asked.workers == 0 || asked.workers > MAX_WORKERS {
        return Err(Error::invalid_argument(rt.alloc(), "other than 1 to 256 workers"));
    }
    print_files_plainly(rt.alloc(), asked.queue, asked.version, files, out)
}

/// Prints on `err` why a recovery is refused. Returns the status to end with, 1.
fn refuse_recovery<E: Write>(error: &Error, err: &mut E) -> u8
    ensures { result ≡ 1 }
{
    let _ = writeln!(err, "raftlog: refused: {}", refusal(error));
    1
}
