//! Histories that are written down. In each, an engine that breaks one of the rules of docs/OWN_ENGINE.md
//! loses records, or brings some back. Here the calls are those of an engine that can't break it. With one
//! worker a crash is tried at each byte of each batch.

use crate::choice::Choice;
use crate::choice::Choice::{Clean, Compact, Delete, Entries, Put, SoundBatch, Truncate};
use crate::crashes::{Crashes, Host};
use crate::faults::Step::{
    Again, Purge, PurgeRewrites, Restart, Rewrite, Rotate, Sync, Synced, Write,
};
use crate::found::{Way, open_found_files};
use crate::history::History;
use raft_base::{Error, FileSeq, LogQueue, Result, Version};

/// A step of a history of region 1.
#[derive(Clone, Copy)]
enum Step {
    /// Writes a batch with these changes, which isn't synced.
    Write(&'static [Choice]),
    /// Writes a batch with these changes, and syncs it.
    Synced(&'static [Choice]),
    /// Syncs the append queue.
    Sync,
    /// Begins a new append file.
    Rotate,
    /// Moves the records of the append files up to this one to the rewrite queue.
    Rewrite(FileSeq),
    /// Moves the records in rewrite files to a new one.
    Again,
    /// Deletes the append files that no table needs.
    Purge,
    /// Deletes the rewrite files that no table needs.
    PurgeRewrites,
    /// Opens the engine anew, without a crash.
    Restart,
}

/// The histories, one for each fault.
static FAULTS: [&[Step]; 14] = [
    // A run that replaces rewritten entries isn't told, and they come back once its append file is gone.
    &[
        Write(&[Entries(1, 10)]),
        Rotate,
        Rewrite(1),
        Write(&[Entries(5, 7)]),
        Write(&[Compact(7)]),
        Rotate,
        Purge,
        Restart,
        Write(&[Entries(8, 9)]),
        Rotate,
        Rewrite(3),
        Purge,
    ],
    // The same by a truncation, after a restart, which finds the run in an append file.
    &[
        Write(&[Entries(1, 10)]),
        Rotate,
        Rewrite(1),
        Write(&[Entries(5, 7)]),
        Restart,
        Write(&[Truncate(5)]),
        Rotate,
        Purge,
    ],
    // What isn't synced is told, or takes the place of what was synced, and power fails.
    &[
        Synced(&[Put("1")]),
        Rotate,
        Write(&[Put("2")]),
        Purge,
        Synced(&[Entries(1, 5)]),
        Rotate,
        Rewrite(2),
        Write(&[Clean, Entries(1, 3)]),
        Purge,
        Again,
        PurgeRewrites,
    ],
    // A deletion is told between the reading of a record and its rewriting.
    &[
        Write(&[Put("1"), Entries(1, 5)]),
        Rotate,
        Write(&[Delete, Compact(3)]),
        Rewrite(1),
        Write(&[Truncate(4)]),
        Rewrite(2),
        Rotate,
        Purge,
        Write(&[Clean]),
        Rewrite(3),
        Rotate,
        Purge,
    ],
    // A Clean is told while records are moved again in several batches.
    &[
        Write(&[Entries(1, 5), Put("1")]),
        Rotate,
        Rewrite(1),
        Again,
        Write(&[Clean]),
        Purge,
        Again,
        PurgeRewrites,
        Rotate,
        Purge,
    ],
    // A run replaces entries between their reading and their rewriting.
    &[
        Write(&[Entries(1, 3)]),
        Rotate,
        Rewrite(1),
        Write(&[Entries(3, 5)]),
        Rotate,
        Write(&[Entries(2, 6)]),
        Rewrite(2),
        Rotate,
        Rewrite(3),
        Purge,
    ],
    // Records of a region are moved twice at once, and again.
    &[
        Write(&[Entries(1, 3)]),
        Rotate,
        Rewrite(1),
        Write(&[Entries(3, 5)]),
        Rotate,
        Rewrite(2),
        Rewrite(2),
        Again,
        Write(&[Entries(1, 3)]),
        Rotate,
        Rewrite(3),
        Again,
        Purge,
        PurgeRewrites,
    ],
    // A rewrite file is deleted while its records are moved.
    &[
        Write(&[Entries(1, 5)]),
        Rotate,
        Rewrite(1),
        Purge,
        Again,
        PurgeRewrites,
        Restart,
        Again,
        PurgeRewrites,
    ],
    // Entries are moved in another order than that of their indexes.
    &[
        Write(&[Entries(1, 3)]),
        Rotate,
        Write(&[Entries(3, 5)]),
        Rotate,
        Rewrite(2),
        Write(&[Entries(2, 7)]),
        Rotate,
        Rewrite(3),
        Purge,
        Again,
        PurgeRewrites,
    ],
    // The bytes of entries are sound batches, of either version, and the tail is torn in them or behind them.
    &[
        Synced(&[Put("1")]),
        Write(&[SoundBatch(1, Version::V1), SoundBatch(2, Version::V2)]),
        Write(&[Put("2")]),
        Rewrite(1),
        Restart,
        Again,
    ],
    // A deleted key is in a rewrite file, and is put again.
    &[
        Write(&[Put("1")]),
        Rotate,
        Rewrite(1),
        Write(&[Delete]),
        Rotate,
        Purge,
        Write(&[Put("")]),
        Rotate,
        Rewrite(3),
        Restart,
        Purge,
        Again,
        PurgeRewrites,
    ],
    // An opening forgets a run that took away rewritten entries, and its append file goes.
    &[
        Write(&[Entries(1, 10)]),
        Rotate,
        Rewrite(1),
        Write(&[Entries(5, 7), Compact(7)]),
        Restart,
        Rotate,
        Purge,
        Restart,
    ],
    // An opening forgets the deletion of a rewritten key, and its append file goes.
    &[
        Write(&[Put("1")]),
        Rotate,
        Rewrite(1),
        Write(&[Delete]),
        Restart,
        Rotate,
        Purge,
        Restart,
    ],
    // (of two batches that aren't synced the first one is damaged below)
    &[
        Synced(&[Entries(1, 3)]),
        Write(&[Entries(3, 5)]),
        Write(&[Entries(5, 7)]),
    ],
];

/// Goes through all histories that are written down, in both versions, with one worker and with four. Returns
/// how many there are.
///
/// # Errors
///
/// `Io` for the output; `Memory`; those of beginning a history.
pub(crate) fn try_written_histories<R: Host>(crashes: &mut Crashes<'_, R>) -> Result<u64> {
    let mut count = 0u64;
    for version in [Version::V1, Version::V2] {
        for workers in [1, 4] {
            for steps in &FAULTS {
                let way = Way { version, workers };
                run_history(crashes, way, steps, count)?;
                count = count.saturating_add(1);
            }
        }
    }
    Ok(count)
}

/// Goes through the history of `steps`, which is numbered `number`, in this `way`. With one worker a crash is
/// tried at each byte of each batch.
///
/// # Errors
///
/// `Io` for the output; `Memory`; those of beginning the history.
fn run_history<R: Host>(
    crashes: &mut Crashes<'_, R>,
    way: Way,
    steps: &[Step],
    number: u64,
) -> Result<()> {
    let different = crashes.different;
    let mut history = History::begin(crashes, number, way, way.workers == 1)?;
    run_steps(crashes, &mut history, steps, number, different)
}

/// Takes the `steps` of a history one after another, and at the end tries a lost page ([`check_lost_page_is_refused`]). Stops,
/// and prints the `number` of the history and the step, once there are more than `different` differences.
///
/// # Errors
///
/// `Io` for the output; `Memory`. An error of a step counts as a difference.
fn run_steps<R: Host>(
    crashes: &mut Crashes<'_, R>,
    history: &mut History,
    steps: &[Step],
    number: u64,
    different: u64,
) -> Result<()> {
    for (at, step) in steps.iter().enumerate() {
        let taken = run_step(crashes, history, *step);
        crashes.check_success(taken)?;
        if crashes.different > different {
            return crashes.print_where_different("fault", number, at as u64);
        }
    }
    check_lost_page_is_refused(crashes, history)
}

/// Takes one `step` of a history: calls the engine, and tries crashes after each ask of its files.
///
/// # Errors
///
/// Those of the engine's call; those of reading the records; `Io` for the output; `Memory`.
fn run_step<R: Host>(
    crashes: &mut Crashes<'_, R>,
    history: &mut History,
    step: Step,
) -> Result<()> {
    match step {
        Write(choices) => write_changes_of_region_1(crashes, history, choices, false),
        Synced(choices) => write_changes_of_region_1(crashes, history, choices, true),
        Sync => history.sync(crashes),
        Rotate => history.rotate(crashes),
        Rewrite(gate) => history.rewrite_up_to(crashes, gate),
        Again => history.move_rewritten_records(crashes),
        Purge => history.purge_queue(crashes, LogQueue::Append),
        PurgeRewrites => history.purge_queue(crashes, LogQueue::Rewrite),
        Restart => history.restart(crashes),
    }
}

/// Writes a batch with `choices`, changes of region 1, and syncs it if `sync`.
///
/// # Errors
///
/// Those of [`History::write`]; `Memory`.
fn write_changes_of_region_1<R: Host>(
    crashes: &mut Crashes<'_, R>,
    history: &mut History,
    choices: &[Choice],
    sync: bool,
) -> Result<()> {
    let mut changes = Vec::new(crashes.rt.alloc());
    for choice in choices {
        changes.push((1, *choice))?;
    }
    history.write(crashes, changes.as_slice(), sync)
}

/// Opens the files with zeros after the header of the first of two unsynced batches. That must be refused as
/// `Corruption`, since it is no torn tail. If it isn't refused, a difference is counted and printed. Does
/// nothing if there are no two unsynced batches.
///
/// # Errors
///
/// Any other refusal of the opening; `Io` for the output; `Memory`.
fn check_lost_page_is_refused<R: Host>(
    crashes: &mut Crashes<'_, R>,
    history: &History,
) -> Result<()> {
    let Some((append, rewrite)) = history.disk.copy_files_with_lost_page()? else {
        return Ok(());
    };
    match open_found_files(crashes.rt, crashes.rt.alloc(), history.way, append, rewrite) {
        Err(Error::Corruption(_)) => Ok(()),
        Err(e) => Err(e),
        Ok(_) => crashes.count_difference("a page was lost, and the files were opened"),
    }
}
