//! The tables of all regions as lines of text.

ghost use Rattle.std.specs.Prelude.{◌≡◌, ◌++◌, IfOk, IfErr, OnOk, map, string_bytes, IsPermutation, flat_map};
ghost use Rattle.raft_recover.specs.Common.{IsNonDecreasingBy, Keeps, IsIoError, range_text, seq_text, table_line, cleaned_line, live_line, IsTextOfTables, PrintsTables, PrintsFrontOfTables};

use raft_accessor::MemTableAccessor;
use raft_base::{AllocResult, Error, FileSeq, LogQueue, Result};
use raft_records::write_whole;
use raft_table::{GlobalStats, MemTable};
use std::alloc::Global;
use std::io::Write;

/// Prints the tables of `accessor`, its cleaned regions and its live counts, in the lines of
/// [`recovered_text`].
///
/// # Errors
///
/// `Memory`; nothing has been written then. `Io` if the writer fails; a part of the lines, from the first
/// byte on, but not all, may have been written then.
pub fn print_recovered<W: Write>(
    alloc: Global,
    accessor: &MemTableAccessor,
    writer: &mut W,
) -> Result<()>
    ensures ok { OnOk result (PrintsTables accessor.now (W.contents writer.old)
        (W.contents writer.new)) }
    ensures silent { IfErr result
        (λ e. (IsIoError e → ⊥) → Keeps (W.contents writer.old) (W.contents writer.new)) }
    ensures cut_short { IfErr result (λ e. IsIoError e
        → PrintsFrontOfTables accessor.now (W.contents writer.old) (W.contents writer.new)) }
    ensures fault { IfErr result (λ e. (IsIoError e → ⊥) → e ≡ Error.Memory) }
{
    let text = recovered_text(alloc, accessor)?;
    write_whole(writer, text.as_bytes())
}

/// Returns the text of the tables of `accessor`. It has a line for each table, the region with the least id
/// first, as `7 entries 10..12 keys 1 append 3 rewrite -`: the range of the indexes (here 10 and 11), the
/// number of keys, and the lowest number of a file that the table needs in each queue. Then come the cleaned
/// regions, as `cleaned 4 9`, and the live counts of the append and the rewrite queue, as `live 3 0`. A `-`
/// means that there is none.
///
/// # Errors
///
/// `Memory` alone.
pub fn recovered_text(alloc: Global, accessor: &MemTableAccessor) -> Result<String>
    ensures ok { IfOk result (λ text. IsTextOfTables accessor.now (string_bytes text)) }
    ensures memory { IfErr result (λ e. e ≡ Error.Memory) }
{
    let mut tables = accessor.tables()?;
    sort_by_region(&mut tables);
    let mut text = String::new(alloc);
    append_tables(tables.as_slice(), &mut text)?;
    append_cleaned_regions(accessor.cleaned_regions(), &mut text)?;
    append_live_counts(accessor.stats(), &mut text)?;
    Ok(text)
}

/// Sorts `tables` by the ids of their regions, the least first.
fn sort_by_region(tables: &mut Vec<&MemTable>)
    ensures moved { IsPermutation tables.old.items tables.new.items }
    ensures rises { IsNonDecreasingBy (λ t. t.now.region_id) tables.new.items }
{
    tables.sort_unstable_by_key(
        |table: &&MemTable| -> u64
            ensures { result ≡ table.now.now.region_id }
        { table.region_id() },
    );
}

/// Appends a line for each of `tables` to `text`, in order.
///
/// # Errors
///
/// `AllocError` if there is no memory. Some of the text may have been appended then.
fn append_tables(tables: &[&MemTable], text: &mut String) -> AllocResult<()>
    ensures { OnOk result (string_bytes text.new
        ≡ string_bytes text.old ++ flat_map table_line (map (λ t. t.now) tables.now)) }
{
    for table in tables {
        append_table(table, text)?;
    }
    Ok(())
}

/// Appends the line of `table` to `text`: its region, the range of its indexes, the number of its keys, and
/// the lowest number of a file that it needs in each queue, as `7 entries 10..12 keys 1 append 3 rewrite -`.
///
/// # Errors
///
/// `AllocError` if there is no memory. Some of the text may have been appended then.
#[doc(hidden)]
pub fn append_table(table: &MemTable, text: &mut String) -> AllocResult<()>
    ensures { OnOk result (string_bytes text.new ≡ string_bytes text.old ++ table_line table.now) }
{
    write!(text, "{} entries ", table.region_id())?;
    append_index_range(table, text)?;
    write!(text, " keys {} append ", table.key_count())?;
    append_file_seq(table.min_file_seq(LogQueue::Append), text)?;
    text.push_str(" rewrite ")?;
    append_file_seq(table.min_file_seq(LogQueue::Rewrite), text)?;
    text.push('\n')
}

/// Appends the range of the indexes of `table` to `text`, as `10..12` for 10 and 11, or `-` if it has no
/// entries.
///
/// # Errors
///
/// `AllocError` if there is no memory. Some of the text may have been appended then.
fn append_index_range(table: &MemTable, text: &mut String) -> AllocResult<()>
    ensures { OnOk result (string_bytes text.new ≡ string_bytes text.old ++ range_text
        table.now.entries) }
{
    table.holds_one_run();
    let (Some(first), Some(last)) = (table.first_index(), table.last_index()) else {
        return text.push('-');
    };
    let end = last + 1;
    write!(text, "{first}..{end}")
}

/// Appends the file number `seq` to `text`, or `-` for `None`.
///
/// # Errors
///
/// `AllocError` if there is no memory. Some of the text may have been appended then.
fn append_file_seq(seq: Option<FileSeq>, text: &mut String) -> AllocResult<()>
    ensures { OnOk result (string_bytes text.new ≡ string_bytes text.old ++ seq_text seq) }
{
    match seq {
        Some(seq) => write!(text, "{seq}"),
        None => text.push('-'),
    }
}

/// Appends the line of the cleaned `regions` to `text`, in order, as `cleaned 4 9`, or `cleaned -` if there
/// are none.
///
/// # Errors
///
/// `AllocError` if there is no memory. Some of the text may have been appended then.
fn append_cleaned_regions(regions: &[u64], text: &mut String) -> AllocResult<()>
    ensures { OnOk result (string_bytes text.new ≡ string_bytes text.old ++ cleaned_line
        regions.now) }
{
    text.push_str("cleaned")?;
    if regions.is_empty() {
        text.push_str(" -")?;
    }
    for region in regions {
        write!(text, " {region}")?;
    }
    text.push('\n')
}

/// Appends the line of the live counts to `text`, that of the append queue first, as `live 3 0`.
///
/// # Errors
///
/// `AllocError` if there is no memory. Some of the text may have been appended then.
fn append_live_counts(stats: &GlobalStats, text: &mut String) -> AllocResult<()>
    ensures { OnOk result (string_bytes text.new ≡ string_bytes text.old ++ live_line stats.now) }
{
    let append = stats.live_entries(LogQueue::Append);
    let rewrite = stats.live_entries(LogQueue::Rewrite);
    writeln!(text, "live {append} {rewrite}")
}
