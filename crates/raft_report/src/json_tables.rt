//! Tables, and what they need of files, as lines of JSON. Each call fails for want of memory alone; one that appends may then have appended
//! some of its text.

ghost use Rattle.std.specs.Prelude.{◌≡◌, ◌++◌, flat_map, map, option_copied, string_bytes, IfErr, IfOk, OnOk};
ghost use Rattle.raft_report.specs.JsonData.{count, json_line, list_of};
ghost use Rattle.raft_report.specs.JsonLines.{IsJsonOfTables, IsRegionAdded, first_of, key_value_data, last_of, live_in, region_json, regions_of, table_back, table_front, table_json, totals_data, use_data, uses_json};
ghost use Rattle.serde_json.specs.Written.{comma_if, compact_text};

use crate::json::{Nullable, QueueName, append_comma_if, append_numbers, hex_as_json};
use crate::region_order::sort_by_region;
use crate::uses::{FileUse, FileUses, live_bytes_in};
use raft_base::{AllocResult, Error, LogQueue, Result};
use raft_reading::FileSize;
use raft_recover::{MemTable, MemTableAccessor};
use std::alloc::Global;

/// Appends the line of a region's table. With `keys` it lists the keys and their values, in hex; else `null` stands in their place.
///
/// # Errors
///
/// `Memory`. Some of the line may then be appended.
pub fn append_json_region(
    alloc: Global,
    table: &MemTable,
    keys: bool,
    text: &mut String,
) -> Result<()>
    ensures ok { OnOk result (IsRegionAdded table.now keys (string_bytes text.old) (string_bytes text.new)) }
    ensures memory { IfErr result (λ e. e ≡ Error.Memory) }
{
    if !keys {
        return Ok(append_table_without_pairs(table, text)?);
    }
    let pairs = pairs_as_json(alloc, table)?;
    Ok(append_table_line(table, pairs.as_str(), text)?)
}

/// Appends the line of a table, with `null` in place of its keys and values.
fn append_table_without_pairs(table: &MemTable, text: &mut String) -> AllocResult<()>
    ensures { OnOk result (string_bytes text.new ≡ string_bytes text.old ++ table_json table.now) }
{
    append_table_line(table, "null", text)
}

/// Appends the line of a table, with the text `pairs` for the list of its keys and values.
fn append_table_line(table: &MemTable, pairs: &str, text: &mut String) -> AllocResult<()>
    ensures { OnOk result (string_bytes text.new ≡ string_bytes text.old ++ region_json table.now pairs.now) }
{
    append_members_before_pairs(table, text)?;
    text.push_str(pairs)?;
    append_members_after_pairs(table, text)
}

/// Appends the members of a table's line up to its pairs: its oldest append file, the first index, the number of keys, and the last index.
/// What there is none of is `null`.
fn append_members_before_pairs(table: &MemTable, text: &mut String) -> AllocResult<()>
    ensures { OnOk result (string_bytes text.new ≡ string_bytes text.old ++ table_front table.now) }
{
    let append = Nullable(table.min_file_seq(LogQueue::Append));
    let (first, last) = (
        Nullable(first_index_of(table)),
        Nullable(last_index_of(table)),
    );
    let keys = table.key_count();
    write!(
        text,
        "{{\"append\":{append},\"first\":{first},\"keys\":{keys},\"last\":{last},\"pairs\":"
    )
}

/// Appends the members of a table's line after its pairs: the region, and its oldest rewrite file, `null` if there is none. Ends the line.
fn append_members_after_pairs(table: &MemTable, text: &mut String) -> AllocResult<()>
    ensures { OnOk result (string_bytes text.new ≡ string_bytes text.old ++ table_back table.now) }
{
    let rewrite = Nullable(table.min_file_seq(LogQueue::Rewrite));
    let region = table.region_id();
    writeln!(text, ",\"region\":{region},\"rewrite\":{rewrite}}}")
}

/// Returns the first index of a table; `None` if it has no entries.
fn first_index_of(table: &MemTable) -> Option<u64>
    ensures { result ≡ first_of table.now.entries }
{
    table.first_index()
}

/// Returns the last index of a table; `None` if it has no entries.
fn last_index_of(table: &MemTable) -> Option<u64>
    ensures { result ≡ last_of table.now.entries }
{
    table.last_index()
}

/// Returns the keys of a table with their values as a list of JSON, in the order of the keys. Both are in hex.
///
/// # Errors
///
/// `Memory` alone.
fn pairs_as_json(alloc: Global, table: &MemTable) -> Result<String>
    ensures memory { IfErr result (λ e. e ≡ Error.Memory) }
{
    let mut text = String::new(alloc);
    text.push('[')?;
    let (mut later, mut appended) = (false, Ok(()));
    table.scan(None, None, false, |key, value| {
        appended = append_pair(alloc, later, key, value, &mut text);
        later = true;
        appended.is_ok()
    })?;
    match appended {
        Ok(()) => {
            text.push(']')?;
            Ok(text)
        }
        Err(_) => Err(Error::Memory),
    }
}

/// Appends a key with its value as an object; after a comma if `later` is set: another pair comes before it.
fn append_pair(
    alloc: Global,
    later: bool,
    key: &[u8],
    value: &[u8],
    text: &mut String,
) -> AllocResult<()>
    ensures { OnOk result (string_bytes text.new
        ≡ string_bytes text.old ++ (comma_if later ++ compact_text (key_value_data (key.now, value.now)))) }
{
    append_comma_if(later, text)?;
    let (key, value) = (hex_as_json(alloc, key)?, hex_as_json(alloc, value)?);
    write!(text, "{{\"key\":{key},\"value\":{value}}}")
}

/// Returns the lines of all tables by rising region id, without their keys and values, and as the last line the cleaned regions and the
/// number of live records of each queue.
///
/// # Errors
///
/// `Memory` alone.
pub fn tables_as_json(alloc: Global, accessor: &MemTableAccessor) -> Result<String>
    ensures ok { IfOk result (λ text. IsJsonOfTables accessor.now (string_bytes text)) }
    ensures memory { IfErr result (λ e. e ≡ Error.Memory) }
{
    let mut tables = accessor.tables()?;
    sort_by_region(&mut tables);
    let mut text = String::new(alloc);
    append_json_tables(tables.as_slice(), &mut text)?;
    append_json_totals(accessor, &mut text)?;
    Ok(text)
}

/// Appends the line of each table, with `null` in place of its keys and values.
fn append_json_tables(tables: &[&MemTable], text: &mut String) -> AllocResult<()>
    ensures { OnOk result (string_bytes text.new
        ≡ string_bytes text.old ++ flat_map table_json (map (λ t. t.now) tables.now)) }
{
    for table in tables {
        append_table_without_pairs(table, text)?;
    }
    Ok(())
}

/// Appends the last line of a listing of tables: the cleaned regions, and the number of live records of each queue.
fn append_json_totals(accessor: &MemTableAccessor, text: &mut String) -> AllocResult<()>
    ensures { OnOk result (string_bytes text.new ≡ string_bytes text.old ++ json_line (totals_data accessor.now)) }
{
    text.push_str("{\"cleaned\":")?;
    append_numbers(accessor.cleaned_regions(), text)?;
    let append = accessor.stats().live_entries(LogQueue::Append);
    let rewrite = accessor.stats().live_entries(LogQueue::Rewrite);
    writeln!(
        text,
        ",\"live_append\":{append},\"live_rewrite\":{rewrite}}}"
    )
}

/// Appends a line for each file of `sizes`: its length, how many of its bytes are those of live entries, and the regions whose oldest file
/// it is. `uses` has what the tables need of the files of `queue`.
///
/// # Errors
///
/// Fails only if there is no memory. Some lines may then be appended.
pub fn append_json_uses(
    queue: LogQueue,
    sizes: &[FileSize],
    uses: &FileUses,
    text: &mut String,
) -> AllocResult<()>
    ensures { OnOk result (string_bytes text.new ≡ string_bytes text.old ++ uses_json queue uses.now sizes.now) }
{
    for size in sizes {
        append_json_file_use(queue, size, uses.get(&size.seq), text)?;
    }
    Ok(())
}

/// Appends the line of one file. `file_use` is `None` if no table needs the file.
fn append_json_file_use(
    queue: LogQueue,
    size: &FileSize,
    file_use: Option<&FileUse>,
    text: &mut String,
) -> AllocResult<()>
    ensures { OnOk result (string_bytes text.new ≡ string_bytes text.old ++ json_line (use_data queue size.now (option_copied file_use.entry))) }
{
    let (name, bytes, file, live) = (
        QueueName(queue),
        size.len,
        size.seq,
        live_bytes_in(file_use),
    );
    write!(
        text,
        "{{\"bytes\":{bytes},\"file\":{file},\"live\":{live},\"queue\":{name},\"regions\":"
    )?;
    append_region_numbers(file_use, text)?;
    text.push_str("}\n")
}

/// Appends the list of the regions whose oldest file it is; an empty one for `None`.
fn append_region_numbers(file_use: Option<&FileUse>, text: &mut String) -> AllocResult<()>
    ensures { OnOk result (string_bytes text.new
        ≡ string_bytes text.old ++ compact_text (list_of (map count (regions_of (option_copied file_use.entry))))) }
{
    match file_use {
        Some(file_use) => append_numbers(file_use.regions.as_slice(), text),
        None => text.push_str("[]"),
    }
}
