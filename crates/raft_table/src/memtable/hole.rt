//! The errors for a run that leaves a hole between a table's entries and its own.

ghost use Rattle.raft_table.specs.Common.{IsCorruption, hole_text, hole_text_above, hole_text_from};

use raft_base::Error;
use std::alloc::Global;

/// Returns the `Corruption` for a run of the region `region_id` that starts at index `start` and leaves a
/// hole after entries that end before index `end`. Its text names all three. Returns `Memory` if there is
/// none for the text.
pub fn hole_error(alloc: Global, region_id: u64, start: u64, end: u64) -> Error
    ensures { IsCorruption (hole_text region_id start end) result }
{
    format_hole_error(alloc, region_id, "index ", start, end)
}

/// Returns the `Corruption` for a run of the region `region_id` that leaves a hole after entries that end
/// before index `end`, where it is known only that the run starts above index `below`. Its text names all
/// three. Returns `Memory` if there is none for the text.
pub fn hole_error_above(alloc: Global, region_id: u64, below: u64, end: u64) -> Error
    ensures { IsCorruption (hole_text_above region_id below end) result }
{
    format_hole_error(alloc, region_id, "above index ", below, end)
}

/// Returns the `Corruption` with the text
/// `region R: a run from WORDS INDEX on leaves a hole behind the entries, which end before index END`.
/// `words` is `index ` or `above index `. Returns `Memory` if there is none for the text.
fn format_hole_error(alloc: Global, region_id: u64, words: &str, index: u64, end: u64) -> Error
    ensures { IsCorruption (hole_text_from region_id words.now index end) result }
{
    match format!(in alloc;
        "region {region_id}: a run from {words}{index} on leaves a hole behind the entries, which end before index {end}"
    ) {
        Ok(text) => Error::Corruption(text),
        Err(_) => Error::Memory,
    }
}
