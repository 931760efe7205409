//! Rows of calls that leave nothing behind: each call makes what it needs anew.

use crate::batches::BATCHES;
use crate::found::Found;
use crate::histories::{Batch, CONTEXTS, History, KEPT, LONG_CONTEXTS, OVERLAYS};
use crate::item_batches::ITEM_BATCHES;
use crate::items::{Form, ITEMS};
use crate::merges::DIRECT;
use crate::parts::{BLOCKS, CUTS, PARTS};
use crate::recoveries::{DRAWS, How, PIECES, PRINTS, SHARES, TICKETS, WORKERS};
use crate::steps::Step;
use crate::tables::CHANGES;
use crate::writes::{MERGES, WRITES};
use crate::{batches, contexts, item_batches, items, merges, parts, recoveries, tables, writes};
use raft_records::{FileSeq, Result, Version};
use std::thread::Threads;

/// A call of such a row, with its arguments.
#[derive(Clone, Copy)]
pub(crate) enum Call {
    /// Bytes are read as a value of a form, which is written again.
    Read(Form, &'static [u8]),
    /// An item batch is read, as one of the append file of a version and a number.
    ReadBatch(&'static [u8], Version, FileSeq),
    /// Steps are added to a batch, which is signed for the append file of a version and a number.
    Batch(&'static [Step], Version, FileSeq),
    /// A batch is read from a part with the first so many bytes of `BYTES`, at a position.
    Next(usize, usize),
    /// A header is read from the first so many bytes of `BYTES`.
    Header(usize),
    /// The entry bytes of a block of this length are read.
    Block(usize),
    /// A part of a version is cut and cloned.
    Cut(Version),
    /// Changes are made of an empty table.
    Change(&'static [tables::Change]),
    /// Items are written, beginning without tables.
    Write(&'static [writes::Call]),
    /// The tables that the second list of calls makes are merged into those of the first one: as those of the
    /// append queue if the flag is set, else as the newer neighbors.
    MergeTables(&'static [writes::Call], &'static [writes::Call], bool),
    /// The table that the second list of changes makes is merged into that of the first one: as one of the
    /// append queue if the flag is set, else as the newer neighbor.
    MergeDirectly(&'static [tables::Change], &'static [tables::Change], bool),
    /// Each batch of a history is read by a context of its own, and the contexts are merged.
    Merge(History),
    /// The second list of batches, of the append queue, is put over the first one, of the rewrite queue.
    Overlay(&'static [Batch], &'static [Batch]),
    /// What a context holds after 20 batches is counted.
    CountPuts,
    /// What the context of a history holds is counted.
    Count(History),
    /// Tickets are opened and closed.
    Tickets,
    /// The pieces are counted that so many segments make if these workers draw them.
    CountPieces(usize, &'static [usize]),
    /// A history is recovered in a way.
    Recover(History, How),
    /// Bytes are printed as an item batch.
    PrintBatch(&'static [u8]),
    /// The tables of a file with these bytes are printed.
    PrintFile(&'static [u8]),
}

/// Returns the calls of the row named `row`, such as `items` or `batches`. Returns none if no row of this
/// file has that name.
fn calls_of_row(row: &str) -> &'static [Call] {
    match row {
        "items" => &ITEMS,
        "item-batch-bytes" => &ITEM_BATCHES,
        "batches" => &BATCHES,
        "parts" => &PARTS,
        "blocks" => &BLOCKS,
        "cuts" => &CUTS,
        "tables" => &CHANGES,
        "writes" => &WRITES,
        "table-merges" => &MERGES,
        "direct-merges" => &DIRECT,
        "contexts" => &CONTEXTS,
        "long-contexts" => &LONG_CONTEXTS,
        "overlays" => &OVERLAYS,
        "kept" => &KEPT,
        "tickets" => &TICKETS,
        "shares" => &SHARES,
        "draws" => &DRAWS,
        "workers" => &WORKERS,
        "pieces" => &PIECES,
        "prints" => &PRINTS,
        _ => &[],
    }
}

/// Makes the calls of the row named `row`. For each it adds lines with what it gives, or with the word for
/// its error, to `found`. If no row has that name, it adds a line that says so.
///
/// # Errors
///
/// `Memory` from a call, after which no further one is made.
pub(crate) fn make_all_calls<R: Threads + Sync>(
    rt: &R,
    found: &mut Found,
    row: &str,
) -> Result<()> {
    let calls = calls_of_row(row);
    if calls.is_empty() {
        return found.append_line("there is no such row");
    }
    for call in calls {
        if let Err(error) = make_call(rt, found, *call) {
            found.append_error_word(error)?;
        }
    }
    Ok(())
}

/// Makes `call`, and adds lines with what it gives to `found`.
///
/// # Errors
///
/// That of the call.
fn make_call<R: Threads + Sync>(rt: &R, found: &mut Found, call: Call) -> Result<()> {
    match call {
        Call::Read(form, bytes) => items::read_item(found, form, bytes),
        Call::ReadBatch(bytes, version, seq) => item_batches::read_batch(
            found, bytes, version, seq,
        ),
        Call::Batch(steps, version, seq) => batches::encode_steps(found, steps, version, seq),
        Call::Next(len, at) => parts::read_next_batch(found, len, at),
        Call::Header(len) => parts::read_header(found, len),
        Call::Block(len) => parts::read_entry_block(found, len),
        Call::Cut(version) => parts::cut_by_batches(found, version),
        Call::Change(changes) => tables::make_all_changes(found, changes),
        Call::Write(calls) => writes::make_write_calls(found, calls),
        Call::MergeTables(older, newer, is_append) => {
            writes::merge_accessors(found, older, newer, is_append)
        }
        Call::MergeDirectly(older, newer, is_append) => {
            merges::merge_tables(found, older, newer, is_append)
        }
        Call::Merge(history) => contexts::merge_history(found, history),
        Call::Overlay(rewritten, appended) => contexts::overlay_histories(
            found, rewritten, appended,
        ),
        Call::CountPuts => contexts::print_kept_of_many_puts(found),
        Call::Count(history) => contexts::print_kept_of_history(found, history),
        Call::Tickets => recoveries::draw_tickets(found),
        Call::CountPieces(segments, draws) => recoveries::count_pieces(found, segments, draws),
        Call::Recover(history, how) => recoveries::recover_history(rt, found, history, how),
        Call::PrintBatch(bytes) => recoveries::print_item_batch(found, bytes),
        Call::PrintFile(bytes) => recoveries::recover_and_print_file(rt, found, bytes),
    }
}
