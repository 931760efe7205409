//! [`Change`]: a random change of a region, which is made both in a batch and in plain maps.

ghost use Rattle.std.specs.Prelude.{◌≡◌, OnOk};
ghost use Rattle.raft_records.specs.LogBatch.{is_open};

use crate::dice::Dice;
use crate::proposal::{Proposal, Proposals};
use crate::records::Records;
use raft_base::Result;
use raft_records::{Command, LogBatch};
use std::alloc::Global;

/// A change of a region.
#[derive(Drop)]
pub enum Change {
    /// Puts entries after those below their first index, and drops all others.
    Append(Vec<Proposal>),
    /// Puts entries as `Append` does, and then compacts the region to its new end, so that none are left.
    Replace(Vec<Proposal>),
    /// Gives a key a value: first the key, then the value.
    Put(Vec<u8>, Vec<u8>),
    /// Removes a key with its value.
    Delete(Vec<u8>),
    /// Drops the entries below an index.
    Compact(u64),
    /// Drops the entries at or above an index.
    Truncate(u64),
    /// Drops all entries and key values.
    Clean,
}

impl Change {
    /// Draws a random change for a region with `records`: mostly entries, and otherwise key values, compactions, truncations
    /// and cleans.
    ///
    /// # Errors
    ///
    /// `Memory` alone.
    pub fn draw_any(alloc: Global, dice: &mut Dice, records: &Records) -> Result<Change> {
        let index = draw_index(dice, records);
        Ok(match dice.draw_below(16) {
            0..=5 => Change::Append(draw_few_entries(alloc, dice, index)?),
            6 | 7 => Change::Replace(draw_few_entries(alloc, dice, index)?),
            8 | 9 => Change::Put(draw_key(alloc, dice)?, draw_text(alloc, dice)?),
            10 | 11 => Change::Delete(draw_key(alloc, dice)?),
            12 | 13 => Change::Compact(index),
            14 => Change::Truncate(index),
            _ => Change::Clean,
        })
    }

    /// Draws a `Replace` that begins at the first index of a region with `records`, or one above it. For a
    /// region without entries that first index is taken to be 1.
    ///
    /// # Errors
    ///
    /// `Memory` alone.
    pub fn draw_replacement(alloc: Global, dice: &mut Dice, records: &Records) -> Result<Change> {
        let first = records
            .first_index()
            .unwrap_or(1)
            .saturating_add(dice.draw_below(2));
        Ok(Change::Replace(draw_few_entries(alloc, dice, first)?))
    }

    /// Adds the change of `region` to `batch`, which must be open, and makes the same change in `records`, those of that region.
    ///
    /// # Errors
    ///
    /// Those of the batch's calls, and `Memory`. The change may then be made in only one of the two, or in part.
    pub fn add_to_batch_and_records(
        self,
        batch: &mut LogBatch,
        region: u64,
        records: &mut Records,
    ) -> Result<()>
        requires { batch.old.stage ≡ is_open }
        ensures { OnOk result (batch.new.stage ≡ is_open) }
    {
        match self {
            Change::Append(entries) => {
                batch.add_entries::<Proposals>(region, entries.as_slice())?;
                records.replace_entries(entries)
            }
            Change::Replace(entries) => {
                batch.add_entries::<Proposals>(region, entries.as_slice())?;
                records.replace_entries(entries)?;
                let index = records.end_index();
                records.entries.clear();
                batch.add_command(region, Command::Compact { index })
            }
            Change::Put(key, value) => {
                batch.put(region, key.clone()?, value.clone()?)?;
                let _ = records.pairs.insert(key, value)?;
                Ok(())
            }
            Change::Delete(key) => {
                let _ = records.pairs.remove(key.as_slice());
                batch.delete(region, key)
            }
            Change::Compact(index) => {
                records.compact(index);
                batch.add_command(region, Command::Compact { index })
            }
            Change::Truncate(index) => {
                records.truncate(index);
                batch.add_command(region, Command::Truncate { index })
            }
            Change::Clean => {
                records.clear();
                batch.add_command(region, Command::Clean)
            }
        }
    }
}

/// Draws an index of a region with `records`, from its first one to its end; in one of four cases it is the end. For a region
/// without entries it draws one below 20.
fn draw_index(dice: &mut Dice, records: &Records) -> u64 {
    let (first, end) = match records.first_index() {
        Some(first) => (first, records.end_index()),
        None => {
            let first = dice.draw_below(20);
            (first, first)
        }
    };
    if dice.draw_one_in(4) {
        return end;
    }
    first.saturating_add(dice.draw_below(end.saturating_sub(first).saturating_add(1)))
}

/// Draws one to five entries with consecutive indexes, the first of which is `first`.
///
/// # Errors
///
/// `Memory` alone.
fn draw_few_entries(alloc: Global, dice: &mut Dice, first: u64) -> Result<Vec<Proposal>> {
    let end = first.saturating_add(dice.draw_below(5)).saturating_add(1);
    draw_entries_between(alloc, dice, first, end)
}

/// Draws an entry for each of the indexes `first..end`, with a random text.
///
/// # Errors
///
/// `Memory` alone.
pub fn draw_entries_between(
    alloc: Global,
    dice: &mut Dice,
    first: u64,
    end: u64,
) -> Result<Vec<Proposal>> {
    let mut entries = Vec::new(alloc);
    for index in first..end {
        let text = draw_text(alloc, dice)?;
        entries.push(Proposal { index, text })?;
    }
    Ok(entries)
}

/// Draws one of the keys `k0` to `k3`.
///
/// # Errors
///
/// `Memory` alone.
fn draw_key(alloc: Global, dice: &mut Dice) -> Result<Vec<u8>> {
    let text = format!(in alloc; "k{}", dice.draw_below(4))?;
    Ok(Vec::from_slice(alloc, text.as_bytes())?)
}

/// Draws a text of up to 20 letters, which may be empty.
///
/// # Errors
///
/// `Memory` alone.
fn draw_text(alloc: Global, dice: &mut Dice) -> Result<Vec<u8>> {
    let mut text = Vec::new(alloc);
    for _ in 0..dice.draw_below(21) {
        text.push(dice.draw_letter())?;
    }
    Ok(text)
}
