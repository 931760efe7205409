//! The engine, which `raft_engine` and `raft_opening` export.
//!
//! Each function pins names or types: it compiles only as long as these are there as it writes them. None is called for
//! its effect.

ghost use Rattle.std.specs.Prelude.{◌≡◌, [], map};
ghost use Rattle.std.specs.Fn.{FnOnceReturnsAtMut};
ghost use Rattle.raft_files.specs.HeldFiles.{file_shown};
ghost use Rattle.raft_records.specs.LogBatch.{is_open};
ghost use Rattle.raft_engine.specs.ReadContexts.{HaveReadFound};
ghost use Rattle.raft_engine.specs.StoredFound.{found_asks};

use raft_engine::{CutTail, DamagedBatch, Engine, Opened, Recovered, RecoveryMode, Unopened};
use raft_files::{EngineFiles, MemoryFiles, NotesFound};
use raft_opening::open_in_pieces;
use raft_reading::{FileSize, ReadFiles};
use raft_recover::{
    Error, FileSeq, LogBatch, LogQueue, MemTableAccessor, MemTableRecoverContext, Result, Segment,
    Version,
};
use std::alloc::Global;
use std::thread::Threads;

/// Compiles only as long as `Engine::is_intact` takes `engine`, and returns `bool`.
fn is_intact_of_engine<F: EngineFiles>(engine: &Engine<F>) -> bool {
    Engine::<F>::is_intact(engine)
}

/// Compiles only as long as `Engine::write` takes `engine`, `batch` and `sync`, and returns `Result<()>`.
fn write_of_engine<F: EngineFiles>(
    engine: &mut Engine<F>,
    batch: &mut LogBatch,
    sync: bool,
) -> Result<()>
where
    requires { batch.old.stage ≡ is_open }
{
    Engine::<F>::write(engine, batch, sync)
}

/// Compiles only as long as `Engine::sync` takes `engine`, and returns `Result<()>`.
fn sync_of_engine<F: EngineFiles>(engine: &mut Engine<F>) -> Result<()> {
    Engine::<F>::sync(engine)
}

/// Compiles only as long as `Engine::rotate` takes `engine`, and returns `Result<()>`.
fn rotate_of_engine<F: EngineFiles>(engine: &mut Engine<F>) -> Result<()> {
    Engine::<F>::rotate(engine)
}

/// Compiles only as long as `Engine::rewrite` takes `engine` and `gate`, and returns `Result<()>`.
fn rewrite_of_engine<F: EngineFiles>(engine: &mut Engine<F>, gate: FileSeq) -> Result<()> {
    Engine::<F>::rewrite(engine, gate)
}

/// Compiles only as long as `Engine::rewrite_again` takes `engine`, and returns `Result<()>`.
fn rewrite_again_of_engine<F: EngineFiles>(engine: &mut Engine<F>) -> Result<()> {
    Engine::<F>::rewrite_again(engine)
}

/// Compiles only as long as `Engine::purge_expired_files` takes `engine`, and returns `Result<usize>`.
fn purge_expired_files_of_engine<F: EngineFiles>(engine: &mut Engine<F>) -> Result<usize> {
    Engine::<F>::purge_expired_files(engine)
}

/// Compiles only as long as `Engine::purge_rewrite_files` takes `engine`, and returns `Result<usize>`.
fn purge_rewrite_files_of_engine<F: EngineFiles>(engine: &mut Engine<F>) -> Result<usize> {
    Engine::<F>::purge_rewrite_files(engine)
}

/// Compiles only as long as `Engine::first_index` takes `engine` and `region`, and returns `Option<u64>`.
fn first_index_of_engine<F: EngineFiles>(engine: &Engine<F>, region: u64) -> Option<u64> {
    Engine::<F>::first_index(engine, region)
}

/// Compiles only as long as `Engine::last_index` takes `engine` and `region`, and returns `Option<u64>`.
fn last_index_of_engine<F: EngineFiles>(engine: &Engine<F>, region: u64) -> Option<u64> {
    Engine::<F>::last_index(engine, region)
}

/// Compiles only as long as `Engine::get_entry` takes `engine`, `region` and `index`, and returns
/// `Result<Option<Vec<u8>>>`.
fn get_entry_of_engine<F: EngineFiles>(
    engine: &mut Engine<F>,
    region: u64,
    index: u64,
) -> Result<Option<Vec<u8>>> {
    Engine::<F>::get_entry(engine, region, index)
}

/// Compiles only as long as `Engine::segments` takes `engine` and `queue`, and returns `Result<Vec<Segment>>`.
fn segments_of_engine(engine: &Engine<MemoryFiles>, queue: LogQueue) -> Result<Vec<Segment>> {
    Engine::<MemoryFiles>::segments(engine, queue)
}

/// Compiles only as long as the law `Engine::nothing_synced_is_lost` can be cited for any engine.
fn law_of_what_lasts<F: EngineFiles>(engine: &Engine<F>) {
    Engine::<F>::nothing_synced_is_lost(engine)
}

/// Compiles only as long as the law `Engine::what_is_left_is_opened` can be cited for any engine.
fn law_of_openings<F: EngineFiles>(engine: &Engine<F>) {
    Engine::<F>::what_is_left_is_opened(engine)
}

/// Compiles only as long as the law `Engine::what_was_written_is_recovered` can be cited for any engine.
fn law_of_the_round_trip<F: EngineFiles>(engine: &Engine<F>) {
    Engine::<F>::what_was_written_is_recovered(engine)
}

/// Makes an engine over files of which nothing was asked.
///
/// # Errors
///
/// Those of `Engine::new`.
fn new_engine<F: EngineFiles + Drop>(alloc: Global, version: Version, files: F) -> Result<Engine<F>>
where
    requires { F.asked files ≡ [] }
{
    Engine::<F>::new(alloc, version, files)
}

/// Opens an engine over found files.
///
/// # Errors
///
/// Those of `Engine::open`.
fn open_engine<R: Threads + Sync, F: EngineFiles>(
    rt: &R,
    alloc: Global,
    version: Version,
    files: F,
    append: Vec<(FileSeq, Vec<u8>)>,
    rewrite: Vec<(FileSeq, Vec<u8>)>,
    workers: usize,
) -> std::result::Result<Engine<F>, Unopened<F>>
where
    requires { F.asked files ≡ found_asks (map file_shown append.items) (map file_shown rewrite.items) }
{
    Engine::<F>::open::<R>(rt, alloc, version, files, append, rewrite, workers)
}

/// Opens an engine over found files in a mode, and returns what was cut off them too.
///
/// # Errors
///
/// Those of `Engine::open_telling`.
fn open_engine_telling<R: Threads + Sync, F: EngineFiles>(
    rt: &R,
    alloc: Global,
    mode: RecoveryMode,
    version: Version,
    files: F,
    append: Vec<(FileSeq, Vec<u8>)>,
    rewrite: Vec<(FileSeq, Vec<u8>)>,
    workers: usize,
) -> std::result::Result<Opened<F>, Unopened<F>>
where
    requires { F.asked files ≡ found_asks (map file_shown append.items) (map file_shown rewrite.items) }
{
    Engine::<F>::open_telling::<R>(rt, alloc, mode, version, files, append, rewrite, workers)
}

/// Opens an engine over files that are read in pieces.
///
/// # Errors
///
/// Those of `open_in_pieces`.
fn open_engine_in_pieces<R: Threads + Sync, F: NotesFound, S: ReadFiles>(
    rt: &R,
    alloc: Global,
    mode: RecoveryMode,
    version: Version,
    files: F,
    source: &S,
    append: &[FileSize],
    rewrite: &[FileSize],
    workers: usize,
) -> std::result::Result<Opened<F>, Unopened<F>>
where
    requires { F.asked files ≡ [] }
{
    open_in_pieces::<R, F, S>(
        rt, alloc, mode, version, files, source, append, rewrite, workers,
    )
}

/// Opens an engine over files that contexts have read, in a mode, and returns what was cut off them too.
///
/// # Errors
///
/// Those of `Engine::open_over_telling`.
fn open_engine_over_telling<F: EngineFiles>(
    alloc: Global,
    mode: RecoveryMode,
    version: Version,
    files: F,
    append: Vec<(FileSeq, Vec<u8>)>,
    rewrite: Vec<(FileSeq, Vec<u8>)>,
    appended: MemTableRecoverContext,
    rewritten: MemTableRecoverContext,
) -> std::result::Result<Opened<F>, Unopened<F>>
where
    requires asked { F.asked files ≡ found_asks (map file_shown append.items) (map file_shown rewrite.items) }
    requires read { HaveReadFound version (map file_shown append.items) (map file_shown rewrite.items) appended rewritten }
{
    Engine::<F>::open_over_telling(
        alloc, mode, version, files, append, rewrite, appended, rewritten,
    )
}

/// Returns a recovery mode by a number, so that each mode is named.
fn recovery_mode_of_number(number: u32) -> RecoveryMode {
    match number {
        0 => RecoveryMode::AbsoluteConsistency,
        1 => RecoveryMode::TolerateTornTail,
        2 => RecoveryMode::TolerateTailCorruption,
        _ => RecoveryMode::default(),
    }
}

/// Returns the tail that was cut off the append queue, by the names of all fields.
fn append_of_recovered(recovered: Recovered) -> Option<CutTail> {
    let Recovered { append, rewrite } = recovered;
    let _rewrite: Option<CutTail> = rewrite;
    append
}

/// Returns the reason why a tail was cut off, by the names of all fields.
fn error_of_cut_tail(tail: CutTail) -> Error {
    let _place: (FileSeq, u64, u64) = (tail.file, tail.offset, tail.len);
    tail.error
}

/// Returns the engine of what an opening returned, by the names of all fields.
fn engine_of_opened<F: EngineFiles>(
    opened: Opened<F>,
) -> (Engine<F>, Recovered, Vec<DamagedBatch>) {
    (opened.engine, opened.recovered, opened.damaged)
}

/// Returns the error with which damaged entries are refused, by the names of all fields.
fn error_of_damaged_batch(batch: DamagedBatch) -> Error {
    let _place: (FileSeq, u64) = (batch.file, batch.offset);
    batch.error
}

/// Opens an engine over files that contexts have read.
///
/// # Errors
///
/// Those of `Engine::open_over`.
fn open_engine_over<F: EngineFiles>(
    alloc: Global,
    version: Version,
    files: F,
    append: Vec<(FileSeq, Vec<u8>)>,
    rewrite: Vec<(FileSeq, Vec<u8>)>,
    appended: MemTableRecoverContext,
    rewritten: MemTableRecoverContext,
) -> std::result::Result<Engine<F>, Unopened<F>>
where
    requires asked { F.asked files ≡ found_asks (map file_shown append.items) (map file_shown rewrite.items) }
    requires read { HaveReadFound version (map file_shown append.items) (map file_shown rewrite.items) appended rewritten }
{
    Engine::<F>::open_over(alloc, version, files, append, rewrite, appended, rewritten)
}

/// Calls `change` with the files of an engine; it asks nothing of them.
fn change_files_of_engine<F: EngineFiles, T, C: FnOnce(&mut F) -> T>(
    engine: &mut Engine<F>,
    change: C,
) -> T
where
    requires callable { C.IsAlwaysCallable change }
    requires silent { (before after : F) (r : T) → FnOnceReturnsAtMut C.FnOnce change before r after
        → F.asked after ≡ F.asked before }
{
    Engine::<F>::with_files::<T, C>(engine, change)
}

/// Opens an engine over copies of files in memory.
///
/// # Errors
///
/// Those of `Engine::open_copies`.
fn open_engine_of_copies<R: Threads + Sync>(
    rt: &R,
    alloc: Global,
    version: Version,
    files: &MemoryFiles,
    workers: usize,
) -> Result<Engine<MemoryFiles>> {
    Engine::<MemoryFiles>::open_copies::<R>(rt, alloc, version, files, workers)
}

/// Compiles only as long as `Engine::accessor` takes `engine`, and returns `&MemTableAccessor`.
fn accessor_of_engine<'a, F: EngineFiles>(engine: &'a Engine<F>) -> &'a MemTableAccessor {
    Engine::<F>::accessor(engine)
}

/// Compiles only as long as `Engine::files` takes `engine`, and returns `&F`.
fn files_of_engine<'a, F: EngineFiles>(engine: &'a Engine<F>) -> &'a F {
    Engine::<F>::files(engine)
}

/// Compiles only as long as `Engine::get` takes `engine`, `region` and `key`, and returns `Option<&[u8]>`.
fn value_of_engine<'a, F: EngineFiles>(
    engine: &'a Engine<F>,
    region: u64,
    key: &[u8],
) -> Option<&'a [u8]> {
    Engine::<F>::get(engine, region, key)
}

/// Compiles only as long as `Engine::fetch_entries_to` takes `engine`, `region`, `begin`, `end`, `max_size` and
/// `entries`, and returns `Result<usize>`.
fn entries_of_engine<F: EngineFiles>(
    engine: &mut Engine<F>,
    region: u64,
    begin: u64,
    end: u64,
    max_size: Option<usize>,
    entries: &mut Vec<Vec<u8>>,
) -> Result<usize> {
    Engine::<F>::fetch_entries_to(engine, region, begin, end, max_size, entries)
}

/// Compiles only as long as `Engine::scan` takes a region, two bounds, a direction, and a visitor of keys and values.
fn pairs_of_engine<F: EngineFiles>(
    engine: &Engine<F>,
    region: u64,
    start: Option<&[u8]>,
    end: Option<&[u8]>,
    reverse: bool,
) -> Result<()> {
    Engine::<F>::scan(
        engine,
        region,
        start,
        end,
        reverse,
        |_key: &[u8], _value: &[u8]| true,
    )
}

/// Returns the files of a refused opening, by the name of the field.
fn files_of_unopened<F: EngineFiles + Drop>(unopened: Unopened<F>) -> F {
    unopened.files
}

/// Compiles only as long as an `Error` can be made of a refused opening.
fn error_of_unopened<F: EngineFiles + Drop>(unopened: Unopened<F>) -> Error {
    Error::from(unopened)
}
