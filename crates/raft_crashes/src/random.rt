//! Random histories.

use crate::choice::Choice;
use crate::crashes::{Crashes, Host};
use crate::found::Way;
use crate::history::History;
use raft_base::{LogQueue, Result, Version};
use raft_samples::Dice;

/// How many steps a history has.
const STEPS: u64 = 24;

/// One history in so many is read by four workers.
const BY_WORKERS: u64 = 8;

/// One history in so many has entries of [`SHARE`] bytes.
const WITH_SHARES: u64 = 1000;

/// How many bytes a share, which one worker of a recovery reads, has at least.
const SHARE: usize = 1 << 20;

/// One history in so many has entries of [`PART`] bytes.
const WITH_GROUPS: u64 = 50;

/// Half of the bytes that a batch may have which moves rewritten entries. So three such entries move in an
/// atomic group.
const PART: usize = 64 << 10;

/// In one history in so many a crash is tried at each byte of each batch.
const BY_BYTES: u64 = 250;

/// Goes through the random history of `seed`, up to its end or the first difference.
///
/// # Errors
///
/// `Io` for the output; `Memory`; those of beginning a history.
pub(crate) fn try_random_history<R: Host>(crashes: &mut Crashes<'_, R>, seed: u64) -> Result<()> {
    let mut dice = Dice::new(!seed);
    let long = draw_long_len(&mut dice);
    let way = draw_way(&mut dice, long);
    let by_bytes = long.is_none() && dice.draw_one_in(BY_BYTES);
    let different = crashes.different;
    let mut history = History::begin(crashes, seed, way, by_bytes)?;
    run_random_steps(crashes, &mut history, long, seed, different)
}

/// Takes random steps of a history. If `long` is a number, some of them write entries of so many bytes.
/// Stops, and prints the seed and the step, once there are more than `different` differences.
///
/// # Errors
///
/// `Io` for the output; `Memory`. An error of a step counts as a difference.
fn run_random_steps<R: Host>(
    crashes: &mut Crashes<'_, R>,
    history: &mut History,
    long: Option<usize>,
    seed: u64,
    different: u64,
) -> Result<()> {
    for step in 0..STEPS {
        let taken = match long {
            Some(len) => run_long_step(crashes, history, len),
            None => run_random_step(crashes, history),
        };
        crashes.check_success(taken)?;
        if crashes.different > different {
            return crashes.print_where_different("seed", seed, step);
        }
    }
    Ok(())
}

/// Draws how many bytes the long entries of a history have, or `None` if it has none.
fn draw_long_len(dice: &mut Dice) -> Option<usize> {
    if dice.draw_one_in(WITH_SHARES) {
        return Some(SHARE);
    }
    if dice.draw_one_in(WITH_GROUPS) {
        return Some(PART);
    }
    None
}

/// Draws the version of a history's files, and by how many workers they are read. It is always four workers
/// if the `long` entries fill the share of one.
fn draw_way(dice: &mut Dice, long: Option<usize>) -> Way {
    let version = if dice.draw_one_in(2) {
        Version::V1
    } else {
        Version::V2
    };
    let workers = if long == Some(SHARE) || dice.draw_one_in(BY_WORKERS) {
        4
    } else {
        1
    };
    Way { version, workers }
}

/// Takes a step of a history with entries of `len` bytes: in half of the cases one that writes such an entry,
/// in a quarter one that moves all records and purges, else any step.
///
/// # Errors
///
/// Those of the step.
fn run_long_step<R: Host>(
    crashes: &mut Crashes<'_, R>,
    history: &mut History,
    len: usize,
) -> Result<()> {
    match history.dice.draw_below(8) {
        0..=3 => write_long_entry(crashes, history, len),
        4 | 5 => move_and_purge_all(crashes, history),
        _ => run_random_step(crashes, history),
    }
}

/// Writes an entry of `len` bytes to region 3, and in the same batch a value or any change of that region, or
/// any change of region 1.
///
/// # Errors
///
/// Those of [`History::write`].
fn write_long_entry<R: Host>(
    crashes: &mut Crashes<'_, R>,
    history: &mut History,
    len: usize,
) -> Result<()> {
    let other = match history.dice.draw_below(8) {
        0 => (3, Choice::Any),
        1..=3 => (1, Choice::Any),
        _ => (3, Choice::Put("long")),
    };
    history.write(crashes, &[(3, Choice::Long(len)), other], false)
}

/// Takes a random step of a history: a write, a sync, a new file, a move of records, a purge, a restart or a
/// crash.
///
/// # Errors
///
/// Those of the step.
fn run_random_step<R: Host>(crashes: &mut Crashes<'_, R>, history: &mut History) -> Result<()> {
    match history.dice.draw_below(24) {
        0..=8 => write_random_batch(crashes, history),
        9 => history.sync(crashes),
        10 => history.rotate(crashes),
        11..=13 => move_records(crashes, history),
        14 | 15 => history.move_rewritten_records(crashes),
        16 | 17 => history.purge_queue(crashes, LogQueue::Append),
        18 => history.purge_queue(crashes, LogQueue::Rewrite),
        19 => history.restart(crashes),
        20 | 21 => history.crash_and_reopen(crashes),
        22 => replace_entries(crashes, history),
        _ => move_and_purge_all(crashes, history),
    }
}

/// Writes a batch of one to three changes of regions 1 and 2. In one of four cases it is synced.
///
/// # Errors
///
/// Those of [`History::write`].
fn write_random_batch<R: Host>(crashes: &mut Crashes<'_, R>, history: &mut History) -> Result<()> {
    let first = (history.dice.draw_below(2) + 1, Choice::Any);
    let second = (history.dice.draw_below(2) + 1, Choice::Any);
    let third = (history.dice.draw_below(2) + 1, Choice::Any);
    let sync = history.dice.draw_one_in(4);
    match history.dice.draw_below(3) {
        0 => history.write(crashes, &[first], sync),
        1 => history.write(crashes, &[first, second], sync),
        _ => history.write(crashes, &[first, second, third], sync),
    }
}

/// Moves the records of some append files: in half of the cases those of all, after a new file is begun; else
/// those up to one of the last three files.
///
/// # Errors
///
/// Those of [`History::rotate`] and [`History::rewrite_up_to`].
fn move_records<R: Host>(crashes: &mut Crashes<'_, R>, history: &mut History) -> Result<()> {
    if history.dice.draw_one_in(2) {
        return rotate_and_rewrite_all(crashes, history);
    }
    let gate = history
        .last_append_seq()
        .saturating_sub(history.dice.draw_below(3));
    history.rewrite_up_to(crashes, gate)
}

/// Begins a new append file, and moves the records of all older ones to the rewrite queue.
///
/// # Errors
///
/// Those of [`History::rotate`] and [`History::rewrite_up_to`].
fn rotate_and_rewrite_all<R: Host>(
    crashes: &mut Crashes<'_, R>,
    history: &mut History,
) -> Result<()> {
    let gate = history.last_append_seq();
    history.rotate(crashes)?;
    history.rewrite_up_to(crashes, gate)
}

/// Takes steps by which entries would be lost or come back if the rewrite queue weren't told of runs that
/// replace some: moves all records, replaces entries and compacts to their end, and purges the append files.
/// In half of the cases a restart comes before the purge, and all records are moved once more.
///
/// # Errors
///
/// Those of the steps.
fn replace_entries<R: Host>(crashes: &mut Crashes<'_, R>, history: &mut History) -> Result<()> {
    rotate_and_rewrite_all(crashes, history)?;
    history.write(
        crashes,
        &[(1, Choice::Replacement), (2, Choice::Replacement)],
        false,
    )?;
    if history.dice.draw_one_in(2) {
        history.restart(crashes)?;
        rotate_and_rewrite_all(crashes, history)?;
    }
    history.rotate(crashes)?;
    history.purge_queue(crashes, LogQueue::Append)
}

/// Moves all records to a new rewrite file, and deletes the oldest files of both queues that no table needs.
///
/// # Errors
///
/// Those of the steps.
fn move_and_purge_all<R: Host>(crashes: &mut Crashes<'_, R>, history: &mut History) -> Result<()> {
    rotate_and_rewrite_all(crashes, history)?;
    history.purge_queue(crashes, LogQueue::Append)?;
    history.move_rewritten_records(crashes)?;
    history.purge_queue(crashes, LogQueue::Rewrite)
}
