//! Opening an engine over files that readers have read.

ghost use Rattle.std.specs.Prelude.{◌≡◌, ◌⊎◌, List, None, IfErr, IfOk, OnErr, OnOk};
ghost use Rattle.raft_files.specs.Asks.{NumberedBytes};
ghost use Rattle.raft_ffi.specs.Words.{AreBothAccepted, AreBothReadAs, AreReadFound, AreSomeReadAs, AreUngroupedAs, Holds, IsOpenedAs, IsOpeningRefusal, IsReadOnAs, IsUnopenedAs};

use crate::handles::{Engine, Handle};
use crate::held_engine::HeldEngine;
use crate::read_queue::{Size, sized_queue};
use raft_base::{Error, LogQueue, Result, Version};
use raft_contexts::MemTableRecoverContext;
use raft_engine::both::Both;
use raft_engine::group_rows::{GroupRows, OUT_OF_ROW};
use raft_engine::reading::{Reading, Ready};
use raft_engine::{Recovered, RecoveryMode};
use raft_files::{Asked, Found};
use raft_opening::sized_files::check_few_bytes;
use raft_orders::HandedFiles;
use raft_recover::files_hold_few_records;
use std::alloc::Global;

/// What is read of a queue: its context, and whether its atomic groups stand in rows.
type Read = Both<MemTableRecoverContext, GroupRows>;

/// What is said of found files once readers have read them.
#[derive(Drop)]
struct FoundByReaders<'a> {
    /// The version of all files.
    version: Version,
    /// The numbers and lengths of the append files, oldest first.
    append: &'a [Size],
    /// The bytes of the last append file from where it couldn't be read on.
    append_rest: &'a [u8],
    /// The numbers and lengths of the rewrite files, oldest first.
    rewrite: &'a [Size],
    /// The bytes of the last rewrite file from where it couldn't be read on.
    rewrite_rest: &'a [u8],
    /// What was read of the append files.
    appended: &'a Read,
    /// What was read of the rewrite files.
    rewritten: &'a Read,
}

impl Found for FoundByReaders<'_> {
    ghost are_found = { λ found. AreBothReadAs found.version found.append.now found.append_rest.now found.rewrite.now
        found.rewrite_rest.now found.appended.now found.rewritten.now };
}

/// Opens files that readers have read, and puts the engine into `engine`, which is empty before. Returns what was cut off from
/// each queue. The entries of the last append file aren't checked.
///
/// # Errors
///
/// Those of [`make_reading`], and those of an order: `Memory`, `Full`. `engine` stays empty then.
pub(crate) fn open_into(
    engine: &mut Engine,
    alloc: Global,
    mode: RecoveryMode,
    version: Version,
    append: &[Size],
    append_rest: &[u8],
    rewrite: &[Size],
    rewrite_rest: &[u8],
    appended: Read,
    rewritten: Read,
) -> Result<Recovered>
    requires empty { engine.old.value ≡ None }
    requires read { AreSomeReadAs version append.now append_rest.now rewrite.now rewrite_rest.now appended rewritten }
    ensures ok { IfOk result (λ recovered. Holds (λ e. IsOpenedAs mode version append.now append_rest.now rewrite.now
        rewrite_rest.now appended rewritten e recovered) engine.new.value) }
    ensures err { OnErr result (engine.new.value ≡ None) }
    ensures fault { IfErr result (IsUnopenedAs mode version append.now append_rest.now rewrite.now rewrite_rest.now
        appended rewritten) }
{
    let found = Asked::of_found(&FoundByReaders {
        version,
        append,
        append_rest,
        rewrite,
        rewrite_rest,
        appended: &appended,
        rewritten: &rewritten,
    });
    let files = HandedFiles::found(alloc, found);
    let reading = make_reading(
        alloc,
        mode,
        version,
        append,
        append_rest,
        rewrite,
        rewrite_rest,
        appended,
        rewritten,
    )?;
    let damaged = Vec::new(alloc);
    let opened = raft_engine::Engine::of_reading(version, files, reading, damaged)?;
    engine.put_new(alloc, HeldEngine::of_engine(opened.engine))?;
    Ok(opened.recovered)
}

/// Returns what an opening has read once its files are read: the tables, and what is still to be asked of the files. The
/// parameters are those of [`open_into`].
///
/// # Errors
///
/// Those of [`sized_queue`]; `InvalidArgument` if an atomic group of the rewrite files doesn't stand in a row, in one file;
/// `Full` if the files of a queue have 2^63 bytes or more, or 2^56 or more would have to be written at once; `Memory`.
fn make_reading(
    alloc: Global,
    mode: RecoveryMode,
    version: Version,
    append: &[Size],
    append_rest: &[u8],
    rewrite: &[Size],
    rewrite_rest: &[u8],
    appended: Read,
    rewritten: Read,
) -> Result<Reading>
    ensures ok { (append_files rewrite_files : List NumberedBytes) → AreBothReadAs version append.now append_rest.now rewrite.now
        rewrite_rest.now appended rewritten append_files rewrite_files
        → IfOk result (AreReadFound version append_files rewrite_files) }
    ensures accepted { (append_files rewrite_files : List NumberedBytes) → AreBothReadAs version append.now append_rest.now rewrite.now
        rewrite_rest.now appended rewritten append_files rewrite_files
        → OnOk result (AreBothAccepted mode version append_files rewrite_files) }
    ensures fault { (append_files rewrite_files : List NumberedBytes) → AreBothReadAs version append.now append_rest.now rewrite.now
        rewrite_rest.now appended rewritten append_files rewrite_files
        → IfErr result (λ e. IsOpeningRefusal (AreUngroupedAs version) mode version append_files rewrite_files e ⊎ IsReadOnAs e) }
{
    files_hold_few_records();
    let append = sized_queue(alloc, mode, LogQueue::Append, version, append, append_rest)?;
    let rewrite = sized_queue(
        alloc,
        mode,
        LogQueue::Rewrite,
        version,
        rewrite,
        rewrite_rest,
    )?;
    check_few_bytes(append.left.as_slice())?;
    check_few_bytes(rewrite.left.as_slice())?;
    let Both { first, second } = rewritten;
    if !second.stand() {
        return Err(Error::invalid_argument(alloc, OUT_OF_ROW));
    }
    let ready = Ready {
        append: append.ready,
        rewrite: rewrite.ready,
    };
    ready.with_contexts(alloc, appended.first, first)
}
