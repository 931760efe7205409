//! Finding out what an opening of files would do, without changing them.

ghost use Rattle.std.specs.Prelude.{◌≡◌, ◌≢◌, ◌↔◌, ◌<◌, ◌≤◌, true, false, IfErr, IfOk, IsTrue};
ghost use Rattle.raft_engine.specs.CutTails.{tail_of};
ghost use Rattle.raft_inspect.specs.Faults.{IsUntried};
ghost use Rattle.raft_inspect.specs.Openings.{AreRefusedFor, CutsNothing, HoldsOfRead, IsAcceptedSo, IsOpeningOf, is_refused_read};
ghost use Rattle.raft_inspect.specs.declared.opening.Opening.TheVariants.{Refuses};

use raft_base::{Error, Result, Version};
use raft_engine::reading::Reading;
use raft_engine::stored_found::found_files_are_stored;
use raft_engine::{Recovered, RecoveryMode};
use raft_opening::piece_reading::read_in_pieces;
use raft_reading::ReadFiles;
use raft_survey::BothSizes;
use std::alloc::Global;
use std::io::ErrorKind;
use std::thread::Threads;

/// What an opening would do with files.
#[derive(Drop)]
pub enum Opening {
    /// It opens the files, and first cuts off the tails that the value names.
    Opens(Recovered),
    /// It refuses the files for this reason, and changes nothing.
    Refuses(Error),
}

impl Opening {
    /// Tests whether the opening accepts the files and cuts nothing off them.
    pub fn cuts_nothing(&self) -> bool
        ensures { IsTrue result ↔ CutsNothing self.now }
    {
        match self {
            Opening::Opens(recovered) => recovered.append.is_none() && recovered.rewrite.is_none(),
            Opening::Refuses(_) => false,
        }
    }
}

/// Finds out what an opening by `workers` threads, 1 to 256, would do with the files that `sizes` names. They are read from `source` in
/// pieces, in `version`, and stay as they are. A refusal is a result, and no error.
///
/// # Errors
///
/// `Io` if the system refuses a read; `Memory`. A read that gives fewer bytes than the file had counts as the opening's refusal.
pub fn try_opening<R: Threads + Sync, S: ReadFiles>(
    rt: &R,
    alloc: Global,
    source: &S,
    version: Version,
    sizes: &BothSizes,
    workers: usize,
) -> Result<Opening>
    requires { (0 < workers) × (workers ≤ 256) }
    ensures ok { IfOk result (IsOpeningOf (S.gives source.now) (S.may_fail source.now) version workers
        sizes.now.append.items sizes.now.rewrite.items) }
    ensures untried { IfErr result (λ e. e ≢ Error.Memory → IsUntried (S.gives source.now) (S.may_fail source.now) version workers
        sizes.now.append.items sizes.now.rewrite.items e) }
{
    match read_both_queues(rt, alloc, source, version, sizes, workers) {
        Ok(reading) => Ok(Opening::Opens(tails_to_cut(reading))),
        Err(error) => refusal_for(error),
    }
}

/// Reads the files of both queues in pieces, as an opening by `workers` threads does that cuts off torn tails. Returns what was read: the
/// tables, and what an opening would still have to ask of the files. It asks nothing of them itself.
///
/// # Errors
///
/// The refusals of an opening; `Io` if a read fails; `Memory`.
pub(crate) fn read_both_queues<R: Threads + Sync, S: ReadFiles>(
    rt: &R,
    alloc: Global,
    source: &S,
    version: Version,
    sizes: &BothSizes,
    workers: usize,
) -> Result<Reading>
    ensures ok { IfOk result (λ reading. HoldsOfRead (S.gives source.now) sizes.now.append.items
        sizes.now.rewrite.items (IsAcceptedSo version reading)) }
    ensures refused { IfErr result (λ e. e ≢ Error.Memory → AreRefusedFor (S.gives source.now) (S.may_fail source.now) version workers
        sizes.now.append.items sizes.now.rewrite.items e) }
{
    found_files_are_stored();
    let mode = RecoveryMode::TolerateTornTail;
    let (append, rewrite) = (sizes.append.as_slice(), sizes.rewrite.as_slice());
    let read = read_in_pieces(rt, alloc, source, mode, version, append, rewrite, workers)?;
    Ok(read.reading)
}

/// Returns the tails that an opening would cut off once it has read the files so.
fn tails_to_cut(reading: Reading) -> Recovered
    ensures { (result.append ≡ tail_of reading.append_missing) × (result.rewrite ≡ tail_of reading.rewrite_missing) }
{
    Recovered {
        append: reading.append_missing.tail(),
        rewrite: reading.rewrite_missing.tail(),
    }
}

/// Returns the opening that refuses files with `error`, if that is a refusal of the files.
///
/// # Errors
///
/// `error` itself, if it is `Memory`, or says that the system refused a read.
fn refusal_for(error: Error) -> Result<Opening>
    ensures ok { IfOk result (λ opening. (opening ≡ Refuses error) × (error ≢ Error.Memory) × (is_refused_read error ≡ false)) }
    ensures same { IfErr result (λ e. e ≡ error) }
    ensures unread { IfErr result (λ e. e ≢ Error.Memory → is_refused_read e ≡ true) }
{
    if matches!(error, Error::Memory) {
        return Err(Error::Memory);
    }
    if is_refused_read(&error) {
        return Err(error);
    }
    Ok(Opening::Refuses(error))
}

/// Tests whether `error` says that the system refused a read. Bytes that end too early don't count: that may be the refusal of a batch.
fn is_refused_read(error: &Error) -> bool
    ensures { result ≡ is_refused_read error.now }
{
    match error {
        Error::Io(error) => match error.kind() {
            ErrorKind::UnexpectedEof => false,
            _ => true,
        },
        _ => false,
    }
}
