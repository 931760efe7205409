//! Makes the calls of *rows*, lists of calls with a name each, and prints what they give:
//! `raft_refusals ROW..` those of the rows named, `raft_refusals` those of all. A call that returns `Memory`
//! is made once more, and what it has left is compared by value with what was there before.
//! `tools/refused_memory.py` runs this program with each request for memory refused in turn.
#![tactic(auto)]

mod batches;
mod calls;
mod contexts;
mod found;
mod histories;
mod item_batches;
mod items;
mod merges;
mod numbers;
mod parts;
mod recoveries;
mod seen;
mod shared;
mod steps;
mod tables;
mod writes;

use found::{Found, is_lack_of_memory};
use raft_records::{Error, Result};
use raft_recover::command_words;
use std::io;
use std::io::Write;
use std::sync::Wait;
use std::thread::Threads;

/// The names of all rows, in the order in which they are made.
const ROWS: [&str; 31] = [
    "numbers",
    "items",
    "item-batches",
    "item-batch-entries",
    "item-batch-bytes",
    "batches",
    "batch-merge",
    "groups",
    "parts",
    "blocks",
    "cuts",
    "tables",
    "fetches",
    "writes",
    "regions",
    "take",
    "table-merges",
    "direct-merges",
    "shared",
    "shared-take",
    "slot-take",
    "contexts",
    "long-contexts",
    "overlays",
    "kept",
    "tickets",
    "shares",
    "draws",
    "workers",
    "pieces",
    "prints",
];

/// Prints what the rows give that the words of the command line name, or all rows if there are no words. If
/// reading the words fails twice, it prints `memory`.
///
/// # Errors
///
/// Those of the output.
fn main(rt: HostRuntime) -> io::Result<()> {
    let mut words = command_words(&rt);
    if words.is_err() {
        words = command_words(&rt);
    }
    match words {
        Ok(words) if words.is_empty() => {
            for row in &ROWS {
                print_row(&rt, row)?;
            }
            Ok(())
        }
        Ok(words) => {
            for word in &words {
                print_row(&rt, word.as_str())?;
            }
            Ok(())
        }
        Err(_) => println!(rt; "memory"),
    }
}

/// Prints the name of the row, makes its calls, and prints their lines. If a call returns `Memory`, and
/// wasn't made again already, the whole row is made once more. Prints `left otherwise` before the lines if a
/// refused call has left something else than it must leave. If the row fails, prints `memory`, or the error,
/// in place of the lines.
///
/// # Errors
///
/// Those of the output.
fn print_row<R: Threads + Wait + Print + AllocGlobal + Sync>(rt: &R, row: &str) -> io::Result<()> {
    let mut found = Found::new(rt.alloc());
    println!(rt; "{row}:")?;
    let mut answer = call_row(rt, row, &mut found);
    if is_lack_of_memory(&answer) && !found.is_in_vain {
        found.lines.clear();
        answer = call_row(rt, row, &mut found);
    }
    if !found.stands {
        println!(rt; "left otherwise")?;
    }
    match answer {
        Ok(()) => io::writer(rt).write_all(found.lines.as_slice()),
        Err(Error::Memory) => println!(rt; "memory"),
        Err(e) => println!(rt; "{e}"),
    }
}

/// Makes the calls of the row named `row`, and adds their lines to `found`.
///
/// # Errors
///
/// `Memory`, or another error that ends the row.
fn call_row<R: Threads + Wait + Sync>(rt: &R, row: &str, found: &mut Found) -> Result<()> {
    match row {
        "numbers" => numbers::encode_numbers(found),
        "item-batches" => item_batches::encode_both_batches(found),
        "item-batch-entries" => item_batches::encode_five_entry_items(found),
        "batch-merge" => batches::merge_two_batches(found),
        "groups" => batches::print_group_batches(found),
        "fetches" => tables::make_all_fetches(found),
        "regions" => writes::call_at_regions(found),
        "take" => writes::take_and_print_cleaned(found),
        "shared" => shared::make_shared_calls(rt, found),
        "shared-take" => shared::take_and_print_cleaned(rt, found),
        "slot-take" => shared::take_twice_listed_region(found),
        _ => calls::make_all_calls(rt, found, row),
    }
}
