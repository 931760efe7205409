//! Tests of a page of zeros among batches that weren't synced: an engine that is opened gives each entry, or its batch is
//! named.

use crate::batches::{REGION, batch_with_entry, bytes_signed_for};
use crate::calls::{LogFiles, OpenedInMode, get_entry, holds, is_corruption, open_in_mode};
use raft_base::{FileId, LogQueue};
use raft_engine::{DamagedBatch, Opened, RecoveryMode};
use raft_files::MemoryFiles;
use raft_records::Result;
use std::alloc::Global;
use std::thread::Threads;

/// The number of batches of the file, each with one entry.
const BATCHES: u64 = 8;

/// The length of an entry in bytes.
const ENTRY: usize = 1_024;

/// The length of the page in bytes.
const PAGE: usize = 512;

/// The number of places at which the page is put.
const PLACES: usize = 200;

/// The only append file.
#[derive(Drop)]
struct File {
    /// Its bytes.
    bytes: Vec<u8>,
    /// The offsets of its batches.
    offsets: Vec<u64>,
}

/// Returns the bytes of an append file of many batches, and the offset of each.
///
/// # Errors
///
/// Those of making and signing the batches; `Memory`.
fn write_file_of_pages(alloc: Global) -> Result<File> {
    let id = FileId::new(LogQueue::Append, 1);
    let mut bytes = Vec::new(alloc);
    let mut offsets = Vec::new(alloc);
    for index in 1..BATCHES + 1 {
        offsets.push(bytes.len() as u64)?;
        let entry = vec![in alloc; b'x'; ENTRY]?;
        let batch = batch_with_entry(alloc, REGION, index, entry)?;
        bytes.extend_from_slice(bytes_signed_for(alloc, batch, id)?.as_slice())?;
    }
    Ok(File { bytes, offsets })
}

/// Returns the file with a page of zeros from position `at` on.
///
/// # Errors
///
/// `Memory` alone.
fn zero_page(alloc: Global, file: &File, at: usize) -> Result<LogFiles> {
    let mut bytes = Vec::from_slice(alloc, file.bytes.as_slice())?;
    for byte in bytes.iter_mut().skip(at).take(PAGE) {
        *byte = 0;
    }
    Ok(vec![in alloc; (1, bytes)]?)
}

/// Tests whether the batch at this offset is named.
fn is_batch_named(damaged: &[DamagedBatch], offset: u64) -> bool {
    damaged.iter().any(|batch| batch.offset == offset)
}

/// Tests whether each entry of the opened engine can be read or has its batch named, and not both. The batches begin at
/// `offsets`, and the engine has the entries of the first ones.
///
/// # Errors
///
/// That of reading an entry, unless it is `Corruption`; `Memory`.
fn are_entries_read_or_named(opened: &mut Opened<MemoryFiles>, offsets: &[u64]) -> Result<bool> {
    let last = opened.engine.last_index(REGION).unwrap_or(0);
    let mut are_so = last <= BATCHES;
    for index in 1..BATCHES + 1 {
        if index > last {
            return Ok(are_so);
        }
        let refused = is_corruption(get_entry(&mut opened.engine, REGION, index))?;
        let Some(offset) = offsets.get(index as usize - 1) else {
            return Ok(false);
        };
        are_so = are_so && refused == is_batch_named(opened.damaged.as_slice(), *offset);
    }
    Ok(are_so)
}

/// What came of the openings with the page at each place.
#[derive(Drop)]
struct Counts {
    /// How many were opened.
    opened: usize,
    /// How many batches were named.
    named: usize,
    /// How many were refused as damage.
    refused: usize,
}

/// Counts an opening. Returns whether it was refused as damage, or gives each entry or names its batch.
///
/// # Errors
///
/// That of the opening or of reading an entry, unless it is `Corruption`; `Memory`.
fn count_opening(opened: OpenedInMode, file: &File, counts: &mut Counts) -> Result<bool> {
    match opened {
        Ok(mut opened) => {
            counts.opened = counts.opened.saturating_add(1);
            counts.named = counts.named.saturating_add(opened.damaged.len());
            are_entries_read_or_named(&mut opened, file.offsets.as_slice())
        }
        Err(unopened) => {
            counts.refused = counts.refused.saturating_add(1);
            is_corruption::<bool>(Err(unopened.error))
        }
    }
}

/// Opens the file with a page of zeros at `place`, and counts the opening. Tests whether it was refused, or each
/// entry can be read or has its batch named.
///
/// # Errors
///
/// Those of [`count_opening`]; `Memory`.
fn is_zeroed_page_refused_read_or_named<R: Threads + Sync>(
    rt: &R,
    alloc: Global,
    file: &File,
    place: usize,
    counts: &mut Counts,
) -> Result<bool> {
    let append = zero_page(alloc, file, place.saturating_mul(file.bytes.len()) / PLACES)?;
    let mode = RecoveryMode::TolerateTornTail;
    let opened = open_in_mode(rt, alloc, mode, append, Vec::new(alloc))?;
    count_opening(opened, file, counts)
}

/// Tests whether a page of zeros at each place is refused, read or named, and all three happen often enough.
///
/// # Errors
///
/// Those of [`write_file_of_pages`] and [`is_zeroed_page_refused_read_or_named`].
fn are_all_zeroed_pages_refused_read_or_named<R: Threads + Sync>(
    rt: &R,
    alloc: Global,
) -> Result<bool> {
    let file = write_file_of_pages(alloc)?;
    let mut counts = Counts {
        opened: 0,
        named: 0,
        refused: 0,
    };
    for place in 0..PLACES {
        if !is_zeroed_page_refused_read_or_named(rt, alloc, &file, place, &mut counts)? {
            return Ok(false);
        }
    }
    Ok(
        counts.named > 50
            && counts.refused > 50
            && counts.opened.saturating_add(counts.refused) == PLACES,
    )
}

/// Tests that an opening never loses an entry silently if a page of the last file has zeros.
#[test]
fn what_a_page_of_zeros_leaves_is_read_or_named(rt: HostRuntime) {
    assert!(rt; holds!(are_all_zeroed_pages_refused_read_or_named(&rt, rt.alloc())));
}
