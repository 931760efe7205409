//! An engine over a folder: it writes, moves records, deletes a file, and is opened again, once after the end of a write was
//! lost.
//!
//! The folder is the one that the first word of the command line names. Its records stay, and a further run writes after them.
//! Without a word it is one of the program's own, which is removed at the end.
#![tactic(auto)]

use raft_base::{FileId, FileSeq, LogQueue, Result, Version};
use raft_engine::{Engine, RecoveryMode};
use raft_folder::{FolderError, FolderFiles, FolderHost};
use raft_opening::open_folder;
use raft_records::{Command, LogBatch};
use raft_recover::SharedFiles;
use raft_samples::{Proposals, proposals_from};
use std::fs::OpenOptions;
use std::process::ExitCode;
use std::thread::Threads;
use std::{env, fs};

/// What the program asks of the machine: files, folders, threads and output.
trait Host: FolderHost + SharedFiles + Threads + Sync + Print {}

impl<R: FolderHost + SharedFiles + Threads + Sync + Print> Host for R {}

/// An engine over the files of a folder.
type FolderEngine<'a, R> = Engine<FolderFiles<'a, R>>;

/// The folder that is used if the command line names none.
const FOLDER: &str = "raft_example_logs";

/// What `--help` prints.
const USAGE: &str =
    "usage: raft_example [<folder>]   (an engine over the folder; without one, over a folder of its own, which it removes)";

/// The greatest number of threads that read the files.
const WORKERS: usize = 2;

/// The regions that are written to.
const REGIONS: [u64; 2] = [7, 8];

/// Prints the usage for `--help`; refuses any other option, with status 2; else runs the example over the folder that the first
/// word names, or over one of its own, which is removed before and after.
///
/// # Errors
///
/// Those of [`run_example`]; `Io` if the words can't be had, the usage can't be printed, or the program's own folder can't be
/// removed.
fn main(rt: HostRuntime) -> Result<ExitCode> {
    match env::args(&rt)?.nth(1) {
        Some(word) if is_help(word.as_str()) => println!(rt; "{USAGE}")?,
        Some(word) if word.as_str().starts_with('-') => {
            eprintln!(rt; "{USAGE}")?;
            return Ok(ExitCode::from(2));
        }
        Some(folder) => run_example(&rt, folder.as_str())?,
        None => {
            remove_folder(&rt)?;
            run_example(&rt, FOLDER)?;
            remove_folder(&rt)?;
        }
    }
    Ok(ExitCode::SUCCESS)
}

/// Tests whether `word` asks for the usage.
fn is_help(word: &str) -> bool {
    word == "--help" || word == "-h"
}

/// Removes the program's own folder with all that is in it, if it is there.
///
/// # Errors
///
/// `Io` alone, if the system refuses it.
fn remove_folder<R: Host>(rt: &R) -> Result<()> {
    if fs::exists(rt, FOLDER)? {
        fs::remove_dir_all(rt, FOLDER)?;
    }
    Ok(())
}

/// Goes through what an engine does, in `folder`, and prints the tables after each step. Each engine is dropped before the
/// next one opens the folder.
///
/// # Errors
///
/// That of the first step that fails.
fn run_example<R: Host>(rt: &R, folder: &str) -> Result<()> {
    write_and_move_records(rt, folder)?;
    write_torn_batch(rt, folder)?;
    write_lost_batch_again(rt, folder)?;
    print_tables(rt, &open_engine(rt, folder)?, "opened")
}

/// Opens the engine of `folder`, and prints what the opening cut off the files.
///
/// # Errors
///
/// Those of [`open_folder`]; `Io` for the output.
fn open_engine<'a, R: Host>(rt: &'a R, folder: &'a str) -> Result<FolderEngine<'a, R>> {
    let engine = open_without_torn_tail(rt, folder)?;
    print_cut_bytes(rt, &engine)?;
    Ok(engine)
}

/// Opens the engine of `folder`, and cuts torn tails off.
///
/// # Errors
///
/// Those of [`open_folder`].
fn open_without_torn_tail<'a, R: Host>(rt: &'a R, folder: &'a str) -> Result<FolderEngine<'a, R>> {
    let mode = RecoveryMode::TolerateTornTail;
    Ok(open_folder(rt, folder, mode, Version::V2, WORKERS)?.engine)
}

/// Prints how many bytes the opening of `engine` cut off each file, and which file keeps them; nothing if it cut nothing off.
///
/// # Errors
///
/// `Io` for the output.
fn print_cut_bytes<R: Host>(rt: &R, engine: &FolderEngine<'_, R>) -> Result<()> {
    for tail in engine.files().kept() {
        println!(rt; "cut off: {} bytes, which {} keeps", tail.len, tail.kept)?;
    }
    Ok(())
}

/// Opens `folder`, writes to two append files, moves what the first one has to the rewrite queue, and deletes
/// it.
///
/// # Errors
///
/// Those of the engine's calls; `Io` for the output.
fn write_and_move_records<'a, R: Host>(rt: &'a R, folder: &'a str) -> Result<()> {
    let mut engine = open_engine(rt, folder)?;
    print_tables(rt, &engine, "opened")?;
    try_to_open_twice(rt, folder)?;
    write_both_regions(rt, &mut engine)?;
    print_tables(rt, &engine, "written")?;
    let deleted = move_closed_files(&mut engine)?;
    println!(rt; "append files deleted: {deleted}")?;
    print_tables(rt, &engine, "moved")
}

/// Tries to open `folder`, which an engine has open, and prints a line if that is refused.
///
/// # Errors
///
/// `Io` for the output.
fn try_to_open_twice<'a, R: Host>(rt: &'a R, folder: &'a str) -> Result<()> {
    if let Err(FolderError::Locked(_)) = FolderFiles::open(rt, folder) {
        println!(rt; "not opened a second time: another engine has the folder open")?;
    }
    Ok(())
}

/// Writes batches of two regions to `engine`, in two append files.
///
/// # Errors
///
/// Those of the engine's calls.
fn write_both_regions<R: Host>(rt: &R, engine: &mut FolderEngine<'_, R>) -> Result<()> {
    let texts = ["put x 1", "put y 2", "put z 3"];
    write_proposals(rt, engine, 7, &texts, "a", true)?;
    write_proposals(rt, engine, 8, &["put u 4", "put v 5"], "a", true)?;
    engine.rotate()?;
    write_proposals(rt, engine, 7, &["delete x"], "b", true)?;
    keep_last_two_proposals(rt, engine, 7)
}

/// Moves what the closed append files of `engine` have to its rewrite queue, and deletes the append files that aren't needed
/// any more. Returns how many files were deleted.
///
/// # Errors
///
/// Those of the engine's calls.
fn move_closed_files<R: Host>(engine: &mut FolderEngine<'_, R>) -> Result<usize> {
    let gate = last_closed_seq(engine)?;
    move_records(engine, gate)?;
    engine.purge_expired_files()
}

/// Moves what the append files up to `gate` have to the rewrite queue, once more where the engine took back what it wrote.
///
/// # Errors
///
/// Those of [`Engine::rewrite`].
fn move_records<R: Host>(engine: &mut FolderEngine<'_, R>, gate: FileSeq) -> Result<()> {
    match engine.rewrite(gate) {
        Err(_) if engine.is_intact() => engine.rewrite(gate),
        answer => answer,
    }
}

/// Returns the number of the last closed append file of `engine`, the one before the file that is written to, or 0 if there is
/// none.
///
/// # Errors
///
/// `Io` if the length of a file can't be had; `Memory`.
fn last_closed_seq<R: Host>(engine: &FolderEngine<'_, R>) -> Result<FileSeq> {
    let files = engine.files().list(LogQueue::Append)?;
    match files.last() {
        Some(last) => Ok(last.seq.saturating_sub(1)),
        None => Ok(0),
    }
}

/// Opens `folder`, writes a batch that isn't synced, and cuts its last 5 bytes off the file, as a crash may
/// do before they are on the disk.
///
/// # Errors
///
/// Those of the engine's calls; `Io` for the file or the output.
fn write_torn_batch<R: Host>(rt: &R, folder: &str) -> Result<()> {
    let mut engine = open_engine(rt, folder)?;
    print_tables(rt, &engine, "opened")?;
    write_proposals(rt, &mut engine, 8, &["put w 6"], "c", false)?;
    print_tables(rt, &engine, "written")?;
    let files = engine.files().list(LogQueue::Append)?;
    if let Some(last) = files.last() {
        let path = engine
            .files()
            .path_of(FileId::new(LogQueue::Append, last.seq))?;
        let mut how = OpenOptions::new();
        how.write(true);
        let file = how.open(rt, path.as_str())?;
        file.set_len(last.len.saturating_sub(5))?;
    }
    Ok(println!(rt; "torn, 5 bytes are lost")?)
}

/// Opens `folder` once more, and writes the batch that was lost, this time synced.
///
/// # Errors
///
/// Those of the engine's calls; `Io` for the output.
fn write_lost_batch_again<R: Host>(rt: &R, folder: &str) -> Result<()> {
    let mut engine = open_engine(rt, folder)?;
    print_tables(rt, &engine, "opened")?;
    write_proposals(rt, &mut engine, 8, &["put w 6"], "c", true)?;
    print_tables(rt, &engine, "written")
}

/// Writes a batch to `region` with the proposals `texts`, whose indexes follow the last one there, and with `leader` as the
/// value of the key `leader`. With `sync` it is synced.
///
/// # Errors
///
/// Those of [`Engine::write`]; `Memory`.
fn write_proposals<R: Host>(
    rt: &R,
    engine: &mut FolderEngine<'_, R>,
    region: u64,
    texts: &[&str],
    leader: &str,
    sync: bool,
) -> Result<()> {
    let alloc = rt.alloc();
    let first = engine.last_index(region).unwrap_or(0).saturating_add(1);
    let (key, value) = (
        Vec::from_slice(alloc, b"leader")?,
        Vec::from_slice(alloc, leader.as_bytes())?,
    );
    let mut batch = LogBatch::default(alloc);
    batch.add_entries::<Proposals>(region, &proposals_from(alloc, first, texts)?)?;
    batch.put(region, key, value)?;
    write_batch(engine, &mut batch, sync)
}

/// Writes `batch`. Where the engine took back what it wrote, since the disk was full for instance, it is written once more: a
/// store would make room before, and the engine needn't be opened again.
///
/// # Errors
///
/// Those of [`Engine::write`].
fn write_batch<R: Host>(
    engine: &mut FolderEngine<'_, R>,
    batch: &mut LogBatch,
    sync: bool,
) -> Result<()> {
    match engine.write(batch, sync) {
        Err(_) if engine.is_intact() => engine.write(batch, sync),
        answer => answer,
    }
}

/// Writes a compaction that drops all proposals of `region` but the last two.
///
/// # Errors
///
/// Those of [`Engine::write`]; `Memory`.
fn keep_last_two_proposals<R: Host>(
    rt: &R,
    engine: &mut FolderEngine<'_, R>,
    region: u64,
) -> Result<()> {
    let mut batch = LogBatch::default(rt.alloc());
    if let Some(last) = engine.last_index(region) {
        let index = last.saturating_sub(1);
        batch.add_command(region, Command::Compact { index })?;
    }
    write_batch(engine, &mut batch, true)
}

/// Prints what an engine has after the step named `step`: the number of files in each queue and, for each region, the first
/// and the last index, 0 without entries, and its leader.
///
/// # Errors
///
/// `Io` for the output, or if the length of a file can't be had; `Memory`.
fn print_tables<R: Host>(rt: &R, engine: &FolderEngine<'_, R>, step: &str) -> Result<()> {
    let append = engine.files().list(LogQueue::Append)?.len();
    let rewrite = engine.files().list(LogQueue::Rewrite)?.len();
    println!(rt; "{step}: append files {append}, rewrite files {rewrite}")?;
    for region in REGIONS {
        let first = engine.first_index(region).unwrap_or(0);
        let last = engine.last_index(region).unwrap_or(0);
        let leader = engine.get(region, b"leader").unwrap_or(b"nobody");
        let leader = String::from_utf8_lossy(rt.alloc(), leader)?;
        println!(rt; "  region {region}: entries {first} to {last}, leader {leader}")?;
    }
    Ok(())
}
