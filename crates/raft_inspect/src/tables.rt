//! The tables of an engine that would be opened over files.

ghost use Rattle.std.specs.Prelude.{◌≢◌, ◌<◌, ◌≤◌, IfErr, IfOk};
ghost use Rattle.raft_inspect.specs.Openings.{AreRefusedFor, AreTablesOf, HoldsOfRead};

use crate::opening::read_both_queues;
use raft_base::{Error, Result, Version};
use raft_reading::ReadFiles;
use raft_recover::MemTableAccessor;
use raft_survey::BothSizes;
use std::alloc::Global;
use std::thread::Threads;

/// Returns the tables that an engine would have if it were opened by `workers` threads, 1 to 256, over the files that `sizes` names. They
/// are read from `source` in pieces, in `version`, and stay as they are.
///
/// # Errors
///
/// The refusals of an opening; `Io` if a read fails; `Memory`.
pub fn read_tables<R: Threads + Sync, S: ReadFiles>(
    rt: &R,
    alloc: Global,
    source: &S,
    version: Version,
    sizes: &BothSizes,
    workers: usize,
) -> Result<MemTableAccessor>
    requires { (0 < workers) × (workers ≤ 256) }
    ensures ok { IfOk result (λ accessor. HoldsOfRead (S.gives source.now) sizes.now.append.items
        sizes.now.rewrite.items (AreTablesOf version accessor)) }
    ensures refused { IfErr result (λ e. e ≢ Error.Memory → AreRefusedFor (S.gives source.now) (S.may_fail source.now) version workers
        sizes.now.append.items sizes.now.rewrite.items e) }
{
    let reading = read_both_queues(rt, alloc, source, version, sizes, workers)?;
    Ok(reading.accessor)
}
