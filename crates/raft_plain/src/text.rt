//! The records of all regions as lines of text, the same as `raftlog recover` prints.

ghost use Rattle.std.specs.Prelude.{◌≡◌, ◌++◌, ℕ, Option, IfOk, IfErr, OnOk, codes, flat_map, string_bytes};
ghost use Rattle.std.specs.Fmt.{decimal};
ghost use Rattle.std.specs.FinMap as finite;
ghost use Rattle.raft_plain.specs.Common.{nat_cmp, IsOrdered, Keeps, IsIoError, least, lesser, seqs_in, first_entry_seq, at_most_group_seq, least_seq, keys_shown, table_shown, all_tables, range_text, seq_text, table_line, cleaned_line, live_line, recovered_shown, IsTextOfTables, PrintsTables, PrintsFrontOfTables};

use crate::Recovered;
use crate::live::is_placed_in;
use crate::overlay::min_of_options;
use crate::region::{Keys, Region, Regions, end_of};
use raft_base::{AllocResult, EntryIndex, Error, FileSeq, LogQueue, Result};
use raft_records::write_whole;
use std::alloc::Global;
use std::io::Write;

/// Prints a line for each region of `recovered`, the least id first, as
/// `7 entries 10..12 keys 1 append 3 rewrite -`: the range of its indexes (here 10 and 11), the number of its
/// keys, and the lowest number of a file that it needs in each queue. Then it prints the cleaned regions, as
/// `cleaned 4 9`, and the live counts of the append and the rewrite queue, as `live 3 0`. A `-` means that
/// there is none.
///
/// # Errors
///
/// `Memory`; nothing has been written then. `Io` if the writer fails; a part of the lines, from the first
/// byte on, but not all, may have been written then.
pub fn print_plainly<W: Write>(alloc: Global, recovered: &Recovered, writer: &mut W) -> Result<()>
    ensures ok { OnOk result (PrintsTables (recovered_shown recovered.now) (W.contents writer.old)
        (W.contents writer.new)) }
    ensures silent { IfErr result
        (λ e. (IsIoError e → ⊥) → Keeps (W.contents writer.old) (W.contents writer.new)) }
    ensures cut_short { IfErr result (λ e. IsIoError e → PrintsFrontOfTables
        (recovered_shown recovered.now) (W.contents writer.old) (W.contents writer.new)) }
    ensures fault { IfErr result (λ e. (IsIoError e → ⊥) → e ≡ Error.Memory) }
{
    let text = recovered_text(alloc, recovered)?;
    write_whole(writer, text.as_bytes())
}

/// Returns the text that [`print_plainly`] prints for `recovered`.
///
/// # Errors
///
/// `AllocError` if there is no memory.
fn recovered_text(alloc: Global, recovered: &Recovered) -> AllocResult<String>
    ensures { IfOk result (λ text. IsTextOfTables (recovered_shown recovered.now) (string_bytes text)) }
{
    let mut text = String::new(alloc);
    append_regions(&recovered.regions, &mut text)?;
    append_cleaned_regions(recovered.cleaned.as_slice(), &mut text)?;
    append_live_counts(recovered.append, recovered.rewrite, &mut text)?;
    Ok(text)
}

/// Appends the line of the live counts to `text`, as `live 3 0`: `append` of the append queue, then `rewrite`
/// of the rewrite queue.
///
/// # Errors
///
/// `AllocError` if there is no memory. Some of the text may have been appended then.
fn append_live_counts(append: u128, rewrite: u128, text: &mut String) -> AllocResult<()>
    ensures { OnOk result (string_bytes text.new ≡ string_bytes text.old ++ (codes "live "
        ++ decimal append ++ codes " " ++ decimal rewrite ++ codes "\n")) }
{
    writeln!(text, "live {append} {rewrite}")
}

/// Appends a line for each of `regions` to `text`, the least id first.
///
/// # Errors
///
/// `AllocError` if there is no memory. Some of the text may have been appended then.
fn append_regions(regions: &Regions, text: &mut String) -> AllocResult<()>
    ensures ordered { IsOrdered nat_cmp regions.now }
    ensures lines { OnOk result (string_bytes text.new
        ≡ string_bytes text.old ++ flat_map table_line (all_tables regions.now)) }
{
    for (id, region) in regions {
        append_region(*id, region, text)?;
    }
    Ok(())
}

/// Appends the line of the region `id` to `text`: the range of its indexes, the number of its keys, and the
/// lowest number of a file that it needs in each queue, as `7 entries 10..12 keys 1 append 3 rewrite -`.
///
/// # Errors
///
/// `AllocError` if there is no memory. Some of the text may have been appended then.
fn append_region(id: u64, region: &Region, text: &mut String) -> AllocResult<()>
    ensures { OnOk result (string_bytes text.new ≡ string_bytes text.old ++ table_line (table_shown id region.now)) }
{
    write!(text, "{id} entries ")?;
    append_index_range(region.entries.as_slice(), text)?;
    write!(text, " keys {} append ", key_count(&region.keys))?;
    append_file_seq(least_file_seq(LogQueue::Append, region), text)?;
    text.push_str(" rewrite ")?;
    let rewritten = least_file_seq(LogQueue::Rewrite, region);
    append_file_seq(cap_at_group_seq(region.group, rewritten), text)?;
    text.push('\n')
}

/// Returns how many keys have a value in `keys`.
fn key_count(keys: &Keys) -> usize
    ensures { result ≡ finite.len (keys_shown keys.now) }
{
    keys.len()
}

/// Appends the range of the indexes of `entries` to `text`, as `10..12` for 10 and 11, or `-` if there are
/// none.
///
/// # Errors
///
/// `AllocError` if there is no memory. Some of the text may have been appended then.
fn append_index_range(entries: &[EntryIndex], text: &mut String) -> AllocResult<()>
    ensures { OnOk result (string_bytes text.new ≡ string_bytes text.old ++ range_text entries.now) }
{
    match entries.first() {
        Some(first) => write!(text, "{}..{}", first.index, end_of(entries)),
        None => text.push('-'),
    }
}

/// Appends the file number `seq` to `text`, or `-` for `None`.
///
/// # Errors
///
/// `AllocError` if there is no memory. Some of the text may have been appended then.
fn append_file_seq(seq: Option<FileSeq>, text: &mut String) -> AllocResult<()>
    ensures { OnOk result (string_bytes text.new ≡ string_bytes text.old ++ seq_text seq) }
{
    match seq {
        Some(seq) => write!(text, "{seq}"),
        None => text.push('-'),
    }
}

/// Appends the line of the `cleaned` regions to `text`, in order, as `cleaned 4 9`, or `cleaned -` if there
/// are none.
///
/// # Errors
///
/// `AllocError` if there is no memory. Some of the text may have been appended then.
fn append_cleaned_regions(cleaned: &[u64], text: &mut String) -> AllocResult<()>
    ensures { OnOk result (string_bytes text.new ≡ string_bytes text.old ++ cleaned_line cleaned.now) }
{
    text.push_str("cleaned")?;
    if cleaned.is_empty() {
        text.push_str(" -")?;
    }
    for region in cleaned {
        write!(text, " {region}")?;
    }
    text.push('\n')
}

/// Returns the lowest file number that a region needs in the rewrite queue, where `seq` is that of its
/// records there: if `seq` is at or below the last file of its atomic group `group`, at most the first one of
/// the group. Returns `None` if `seq` is `None`.
fn cap_at_group_seq(group: Option<(FileSeq, FileSeq)>, seq: Option<FileSeq>) -> Option<FileSeq>
    ensures { result ≡ at_most_group_seq group seq }
{
    match (group, seq) {
        (Some((first, last)), Some(seq)) if seq <= last => Some(seq.min(first)),
        (_, seq) => seq,
    }
}

/// Returns the file number of the region's first entry in `queue` or the lowest one of its key values there,
/// whichever is lower. Returns `None` if the region has no record there.
fn least_file_seq(queue: LogQueue, region: &Region) -> Option<FileSeq>
    ensures { result ≡ least_seq queue (table_shown 0 region.now) }
{
    let entry_seq = first_entry_seq(queue, region.entries.as_slice());
    min_of_options(entry_seq, least_key_seq(queue, &region.keys))
}

/// Returns the file number of the first of `entries` that has its place in `queue`, or `None` if there is
/// none.
#[tactic(auto, unfolding(raft_table::specs::TableEntries::placed_in, raft_table::specs::TableEntries::is_placed_in))]
fn first_entry_seq(queue: LogQueue, entries: &[EntryIndex]) -> Option<FileSeq>
    ensures { result ≡ first_entry_seq queue entries.now }
{
    for entry in entries {
        if is_placed_in(queue, entry) {
            return Some(entry.entries?.id.seq);
        }
    }
    None
}

/// Returns the lowest number of a file of `queue` in which a value of `keys` stands, or `None` if there is
/// none.
fn least_key_seq(queue: LogQueue, keys: &Keys) -> Option<FileSeq>
    ensures { result ≡ least (seqs_in queue (keys_shown keys.now)) }
{
    let mut least = None;
    for stored in keys.values() {
        if stored.file.queue == queue {
            least = min_of_options(least, Some(stored.file.seq));
        }
    }
    least
}
