//! Reading the last file of a queue, each byte once.

ghost use Rattle.std.specs.Prelude.{[], IfOk};
ghost use Rattle.raft_opening.specs.ReadOnce.{AreClosedAndLastRead, IsLastReplayed};

use crate::damaged::named_batches;
use crate::file_rest::check_rest;
use raft_base::{Factory, FileId, LogFileContext, LogQueue, Result, Version};
use raft_engine::{CutTail, DamagedBatch, RecoveryMode};
use raft_history::ReplayMachine;
use raft_prefix::{Prefix, ReplayedPrefix, read_tail, replay_prefix};
use raft_reading::{FileSize, ReadFiles};
use std::alloc::Global;

/// What was read of a queue's last file.
#[derive(Drop)]
pub struct LastRead {
    /// What stands after its readable prefix; `None` if all of it can be read.
    pub tail: Option<CutTail>,
    /// The batches of its readable prefix whose entries are damaged, in order; none in a rewrite file.
    pub damaged: Vec<DamagedBatch>,
}

/// Replays a file of `len` bytes into `machine`, up to the first byte at which no batch can be read. Returns the tail from there
/// on, whose cut `mode` has to allow, and which batches have damaged entries; a rewrite file with such a batch is refused.
///
/// # Errors
///
/// Those of `replay_prefix`, of `read_tail` and of [`check_rest`]; `Memory`. Some of the batches may have been replayed then.
pub fn replay_last<M: ReplayMachine, S: ReadFiles>(
    machine: &mut M,
    alloc: Global,
    source: &S,
    mode: RecoveryMode,
    file: &LogFileContext,
    len: u64,
) -> Result<LastRead>
    ensures { IfOk result (IsLastReplayed (S.gives source.now file.now.id) mode file.now len M.stands_for M.stands_exactly
        machine.old machine.new) }
{
    let read = replay_prefix(machine, alloc, source, file, len)?;
    let ReplayedPrefix { prefix, behind } = read;
    let Prefix {
        len: at,
        stopped,
        damaged,
    } = prefix;
    let damaged = named_batches(alloc, file.id, damaged.as_slice())?;
    let Some(error) = stopped else {
        let tail = None;
        return Ok(LastRead { tail, damaged });
    };
    let rest = read_tail(source, file, at, behind, len)?;
    check_rest(mode, &rest)?;
    let tail = Some(CutTail {
        file: file.id.seq,
        offset: at,
        len: len - at,
        error,
    });
    Ok(LastRead { tail, damaged })
}

/// Replays the last file of `queue` into a machine that `factory` makes, as [`replay_last`] does. Returns the machine, and what
/// was read of the file.
///
/// # Errors
///
/// Those of the factory, and those of [`replay_last`].
pub fn read_last<M: ReplayMachine, F: Factory<M>, S: ReadFiles>(
    alloc: Global,
    factory: &F,
    source: &S,
    mode: RecoveryMode,
    queue: LogQueue,
    version: Version,
    last: FileSize,
) -> Result<(M, LastRead)>
    requires { (m : M) → F.gives factory.now m → M.stands_exactly m [] }
    ensures { IfOk result (AreClosedAndLastRead (S.gives source.now) mode queue version [] last M.stands_for M.stands_exactly) }
{
    let mut machine = factory.new_target(alloc)?;
    let file = LogFileContext::new(FileId::new(queue, last.seq), version);
    let read = replay_last(&mut machine, alloc, source, mode, &file, last.len)?;
    Ok((machine, read))
}
