//! Tests how often a rewriting reads: once for each block of entries.

use crate::batches::Part;
use crate::batches::Part::Entries;
use crate::calls::{holds, rewrite_up_to, write_parts};
use crate::read::{CountedFiles, new_engine_counting_reads};
use raft_base::Result;
use raft_engine::Engine;
use std::alloc::Global;

/// Writes these batches to one append file, and moves them to the rewrite queue. Returns how many reads that makes.
///
/// # Errors
///
/// Those of the engine's calls; `Memory`.
fn count_reads_of_move(alloc: Global, batches: &[&[Part]]) -> Result<usize> {
    let mut engine = new_engine_counting_reads(alloc)?;
    count_reads_in(alloc, &mut engine, batches)
}

/// Writes `batches`, and moves them to the rewrite queue. Returns how many reads that made.
///
/// # Errors
///
/// Those of the engine's calls; `Memory`.
fn count_reads_in(
    alloc: Global,
    engine: &mut Engine<CountedFiles>,
    batches: &[&[Part]],
) -> Result<usize> {
    for parts in batches {
        write_parts(alloc, engine, *parts, false)?;
    }
    rewrite_up_to(engine, 1)?;
    Ok(engine.files().reads)
}

/// Tests whether a move reads one block for one batch, and three for three.
///
/// # Errors
///
/// Those of the engine's calls; `Memory`.
fn are_reads_few(alloc: Global) -> Result<bool> {
    Ok(
        count_reads_of_move(alloc, &[&[Entries(1, 9)]])? == 1
            && count_reads_of_move(
                alloc,
                &[&[Entries(1, 5)], &[Entries(5, 6)], &[Entries(6, 9)]],
            )? == 3,
    )
}

/// Tests that a move of records reads each entry block once.
#[test]
fn a_rewriting_reads_a_block_once(rt: HostRuntime) {
    assert!(rt; holds!(are_reads_few(rt.alloc())));
}
