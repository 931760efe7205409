//! The command `raftlog regions`: the tables that an engine would have.

ghost use Rattle.std.specs.Prelude.{◌≡◌, ◌⊎◌, ◌<◌, ◌≤◌, IfOk, OnErr, OnOk};
ghost use Rattle.std.specs.Io.KnownBytes.{Keeps};
ghost use Rattle.raft_recover.specs.TableLines.{PrintsFrontOfTables, PrintsTables};
ghost use Rattle.raftlog.specs.Commands.{AreRegionsCutShort, AreRegionsPrinted, PrintsPrefixOfTablesAsJson, PrintsPrefixOfTablesIn, PrintsTablesAsJson, PrintsTablesIn};

use crate::errors::{ToolError, ToolResult};
use crate::host::Host;
use crate::options::{form_of, has_flag, number_of, version_of, workers_of};
use crate::source::{Found, find_files};
use crate::tools::DONE;
use clap::ArgMatches;
use raft_base::{Error, Version};
use raft_inspect::read_tables;
use raft_reading::ReadFiles;
use raft_recover::{MemTableAccessor, append_table, print_recovered};
use raft_report::{Form, append_json_region, append_keys, tables_as_json, write_text};
use raft_survey::BothSizes;
use std::alloc::Global;
use std::io::Write;
use std::thread::Threads;

/// Prints the tables that an engine would have which is opened over the files, or with `--region` one of them with its keys. Returns the
/// status to end with.
///
/// # Errors
///
/// `Misused` if the words ask for values and name no region; `NoTable` if the region has no table; those of the files, of an opening, and
/// of the output; `Memory`. Some lines may be printed then.
pub(crate) fn show_regions<'a, R: Host, W: Write>(
    rt: &'a R,
    words: &ArgMatches<'a>,
    out: &mut W,
) -> ToolResult<u8> {
    let (region, values) = (number_of(words, "region"), has_flag(words, "values"));
    if values && region.is_none() {
        return Err(ToolError::Misused("--values is of the keys of a region: say --region"));
    }
    let found = find_files(rt, words, 1)?;
    let form = form_of(words);
    match region {
        Some(region) => {
            let tables = tables_of(rt, words, &found)?;
            print_region(rt.alloc(), &tables, region, values, form, out)
        }
        None => {
            let (version, workers) = (version_of(words), workers_of(rt, words));
            let mut out = found.source.output_over_bar(out);
            let printed = print_regions(
                rt,
                &found.source,
                version,
                &found.sizes,
                workers,
                form,
                &mut out,
            );
            found.source.end_progress();
            printed
        }
    }
}

/// Returns the tables that an engine would have which is opened over the found files. Clears the progress bar, after an error too.
///
/// # Errors
///
/// Those of the files, the refusals of an opening, and `Memory`, all as `Raft`.
pub(crate) fn tables_of<R: Host>(
    rt: &R,
    words: &ArgMatches<'_>,
    found: &Found<'_, R>,
) -> ToolResult<MemTableAccessor> {
    let (version, workers) = (version_of(words), workers_of(rt, words));
    let (source, sizes) = (&found.source, &found.sizes);
    let tables = read_tables(rt, rt.alloc(), source, version, sizes, workers);
    source.end_progress();
    Ok(tables?)
}

/// Prints all tables that an engine would have which is opened over the files that `sizes` names and `source` reads. Returns the status to
/// end with.
///
/// # Errors
///
/// Those of the files, of an opening, and of the output; `Memory`. Nothing is printed then, or a prefix, but not all of it.
fn print_regions<R: Threads + Sync + AllocGlobal, S: ReadFiles, W: Write>(
    rt: &R,
    source: &S,
    version: Version,
    sizes: &BothSizes,
    workers: usize,
    form: Form,
    out: &mut W,
) -> ToolResult<u8>
    requires { (0 < workers) × (workers ≤ 256) }
    ensures printed { OnOk result (AreRegionsPrinted form (S.gives source.now) version sizes.now.append.items
        sizes.now.rewrite.items (W.contents out.old) (W.contents out.new)) }
    ensures cut_short { OnErr result (AreRegionsCutShort form (S.gives source.now) version sizes.now.append.items
        sizes.now.rewrite.items (W.contents out.old) (W.contents out.new)) }
{
    let tables = read_tables(rt, rt.alloc(), source, version, sizes, workers)?;
    print_all_regions(rt.alloc(), &tables, form, out)
}

/// Prints all tables, as text or as lines of JSON. Returns the status to end with.
///
/// # Errors
///
/// `Output` if the output takes no more; `Raft` of `Memory`. Nothing is printed then, or a prefix, but not all of it.
fn print_all_regions<W: Write>(
    alloc: Global,
    accessor: &MemTableAccessor,
    form: Form,
    out: &mut W,
) -> ToolResult<u8>
    ensures done { IfOk result (λ status. status ≡ 0) }
    ensures printed { OnOk result (PrintsTablesIn form accessor.now (W.contents out.old) (W.contents out.new)) }
    ensures cut_short { OnErr result (Keeps (W.contents out.old) (W.contents out.new)
        ⊎ PrintsPrefixOfTablesIn form accessor.now (W.contents out.old) (W.contents out.new)) }
{
    match form {
        Form::Text => print_text_regions(alloc, accessor, out),
        Form::Json => print_json_regions(alloc, accessor, out),
    }
}

/// Prints all tables as text. Returns the status to end with.
///
/// # Errors
///
/// `Output` if the output takes no more; `Raft` of `Memory`. Nothing is printed then, or a prefix, but not all of it.
fn print_text_regions<W: Write>(
    alloc: Global,
    accessor: &MemTableAccessor,
    out: &mut W,
) -> ToolResult<u8>
    ensures done { IfOk result (λ status. status ≡ 0) }
    ensures printed { OnOk result (PrintsTables accessor.now (W.contents out.old) (W.contents out.new)) }
    ensures cut_short { OnErr result (Keeps (W.contents out.old) (W.contents out.new)
        ⊎ PrintsFrontOfTables accessor.now (W.contents out.old) (W.contents out.new)) }
{
    match print_recovered(alloc, accessor, out) {
        Ok(()) => Ok(DONE),
        Err(Error::Io(error)) => Err(ToolError::Output(error)),
        Err(error) => Err(ToolError::Raft(error)),
    }
}

/// Prints all tables as lines of JSON. Returns the status to end with.
///
/// # Errors
///
/// `Output` if the output takes no more; `Raft` of `Memory`. Nothing is printed then, or a prefix, but not all of it.
fn print_json_regions<W: Write>(
    alloc: Global,
    accessor: &MemTableAccessor,
    out: &mut W,
) -> ToolResult<u8>
    ensures done { IfOk result (λ status. status ≡ 0) }
    ensures printed { OnOk result (PrintsTablesAsJson accessor.now (W.contents out.old) (W.contents out.new)) }
    ensures cut_short { OnErr result (Keeps (W.contents out.old) (W.contents out.new)
        ⊎ PrintsPrefixOfTablesAsJson accessor.now (W.contents out.old) (W.contents out.new)) }
{
    let text = tables_as_json(alloc, accessor)?;
    write_text(out, text.as_str())?;
    Ok(DONE)
}

/// Prints the table of one region, and its keys. As text a key has its value with `values`, else the length of it; as JSON it always has
/// the value. Returns the status to end with.
///
/// # Errors
///
/// `NoTable` if the region has no table; `Memory`; nothing is printed then. `Output` if the output takes no more.
fn print_region<W: Write>(
    alloc: Global,
    accessor: &MemTableAccessor,
    region: u64,
    values: bool,
    form: Form,
    out: &mut W,
) -> ToolResult<u8> {
    let Some(table) = accessor.get(region) else {
        return Err(ToolError::NoTable(region));
    };
    let mut text = String::new(alloc);
    match form {
        Form::Text => {
            append_table(table, &mut text)?;
            append_keys(alloc, table, values, &mut text)?;
        }
        Form::Json => append_json_region(alloc, table, true, &mut text)?,
    }
    write_text(out, text.as_str())?;
    Ok(DONE)
}
