//! Exported calls of contexts, which rebuild the tables of regions from the batches of log files.

ghost use Rattle.std.specs.Prelude.{◌≡◌, ◌≢◌, ◌⊎◌, ◌+◌, ◌^◌, ◌<◌, [], IsTrue, IfOk, IfErr, OnOk, None, is_some, length};
ghost use Rattle.raft_ffi.specs.Words.{AllHold, AreKept, AreOfTwoQueues, AreTablesOf, AreUnsound, BothHold, CannotFollow, HasBothRead, HasRead, HasReadExactly, HasReplayed, HasTablesRead, HasText, Holds, HoldsFrom, IsCodeFor};
ghost use Rattle.raft_ffi.specs.Words.{IsCodeForBoth, IsMadeIfMemory, IsMemoryOr, IsMergeAppendFault, IsMergedWith, IsNeighborFault, IsOfFailed, IsOverlaidExactly, IsOverlaidWith, IsRefusedFor, IsReadOrRefused, Sound, StandsForBoth};
ghost use Rattle.raft_ffi.specs.Words.{StandsForBothExactly, StopsByFault, blank_context, capped, file_of, kept_of, part_of, queue_of, Failed, Reading};

use crate::handles::{
    Context, Handle, Tables, answer_or_drop, answer_with_value, unwrap_or_return, with_value,
};
use crate::status::{File, Status, memory_code, status_of, to_queue};
use raft_accessor::MemTableAccessor;
use raft_base::{Error, LogFileContext, LogQueue, Result};
use raft_contexts::MemTableRecoverContext;
use raft_replay::replay_bytes;
use std::alloc::Global;

/// What a context holds, in numbers. One that is above 2^64 - 1 stands as that.
#[repr(C)]
#[derive(Clone, Copy)]
pub struct KeptNumbers {
    /// The number of entries.
    pub entries: u64,
    /// The number of keys.
    pub keys: u64,
    /// The number of regions with a region mark and of groups with a group marker, together.
    pub marks: u64,
    /// The number of deleted keys in region marks.
    pub deleted_keys: u64,
    /// The number of cleaned regions that are listed.
    pub cleaned: u64,
    /// The number of items of atomic groups that wait for their End.
    pub waiting_items: u64,
}

/// Makes a context that has read nothing in `context`, which is empty before. Returns 0, or 11 (`Memory`): it stays empty
/// then.
#[unsafe(no_mangle)]
pub extern "C" fn raft_ffi_context_new(alloc: Global, context: &mut Context) -> u32
    requires empty { context.old.value ≡ None }
    ensures made { IsMadeIfMemory result blank_context context.new.value }
    ensures exact { result ≡ 0 → Holds (λ c. HasReadExactly c []) context.new.value }
{
    let held = unwrap_or_return!(MemTableRecoverContext::new(alloc));
    memory_code(&context.put_new(alloc, held))
}

/// Replays `bytes`, batches that stand in `file` from `offset` on. The code is 0; that of the error if a batch can't be read
/// or can't follow those before it; 12 (`Failed`), if the context doesn't read on; or 11 (`Memory`). After an error `context`
/// is empty: what it held may have taken in some of the batches, and is dropped.
#[unsafe(no_mangle)]
pub extern "C" fn raft_ffi_context_replay(
    alloc: Global,
    context: &mut Context,
    file: File,
    offset: u64,
    bytes: &[u8],
    text: &mut [u8],
) -> Status
    requires held { IsTrue (is_some context.old.value) }
    requires ends { offset + length bytes.now < 2 ^ 64 }
    ensures ok { result.code ≡ 0 → BothHold (HasReplayed (HoldsFrom (part_of (file_of file) offset bytes.now) 0) HasRead
        HasReadExactly) context.old.value context.new.value }
    ensures accepted { result.code ≡ 0 → Holds (λ c. c.stage ≡ Reading) context.old.value }
    ensures failed { result.code ≢ 0 → Holds (λ c. c.stage ≢ Reading → result.code ≡ 12) context.old.value }
    ensures err { result.code ≢ 0 → context.new.value ≡ None }
    ensures refused { result.code ≢ 0 → result.code ≢ 11 → Holds (λ old. CannotFollow (HoldsFrom (part_of (file_of file)
        offset bytes.now) 0) (HasRead old)) context.old.value }
    ensures place { result.code ≢ 0 → Holds (λ c. c.stage ≡ Reading → IsRefusedFor (StopsByFault (HasRead c) Sound
        (part_of (file_of file) offset bytes.now)) result text.old text.new) context.old.value }
    ensures text { HasText result text.old text.new }
{
    answer_or_drop!(held in context, alloc, text; replay_batches(&mut *held, alloc, &file.to_context(), offset, bytes))
}

/// Replays `bytes`, batches that stand in `file` from `offset` on.
///
/// # Errors
///
/// `Failed` if the context doesn't read on: it is unchanged then. Those of [`replay_bytes`]: the context may have taken in
/// some of the batches then.
fn replay_batches(
    context: &mut MemTableRecoverContext,
    alloc: Global,
    file: &LogFileContext,
    offset: u64,
    bytes: &[u8],
) -> Result<()>
    requires ends { offset + length bytes.now < 2 ^ 64 }
    ensures ok { OnOk result (HasReplayed (HoldsFrom (part_of file.now offset bytes.now) 0)
        HasRead HasReadExactly context.old context.new) }
    ensures accepted { OnOk result (context.old.stage ≡ Reading) }
    ensures failed { context.old.stage ≢ Reading → IfErr result (λ e. e ≡ Error.Failed) }
    ensures refused { IfErr result (λ e. e ≢ Error.Memory
        → CannotFollow (HoldsFrom (part_of file.now offset bytes.now) 0) (HasRead context.old)) }
    ensures place { context.old.stage ≡ Reading
        → IfErr result (StopsByFault (HasRead context.old) Sound (part_of file.now offset bytes.now)) }
{
    if !context.reads_on() {
        return Err(Error::Failed);
    }
    replay_bytes(context, alloc, file, offset, bytes)
}

/// Takes in `newer`, the context of the batches that follow in the same queue. `newer` is gone then. The code is 0, or that of
/// the error: 12 (`Failed`), if one of both doesn't read on. After an error `context` is empty.
#[unsafe(no_mangle)]
pub extern "C" fn raft_ffi_context_merge(
    alloc: Global,
    context: &mut Context,
    newer: Context,
    is_rewrite: bool,
    text: &mut [u8],
) -> Status
    requires held { IsTrue (is_some context.old.value) }
    requires newer { IsTrue (is_some newer.value) }
    ensures ok { result.code ≡ 0 → AllHold (IsMergedWith (queue_of is_rewrite)) newer.value context.old.value context.new.value }
    ensures stands { result.code ≡ 0 → AllHold StandsForBoth newer.value context.old.value context.new.value }
    ensures exact { result.code ≡ 0 → AllHold StandsForBothExactly newer.value context.old.value context.new.value }
    ensures err { result.code ≢ 0 → context.new.value ≡ None }
    ensures refused { result.code ≢ 0 → result.code ≢ 11
        → BothHold (AreUnsound (queue_of is_rewrite)) context.old.value newer.value }
    ensures fault { result.code ≢ 0 → IsCodeForBoth (IsNeighborFault (queue_of is_rewrite))
        context.old.value newer.value result.code }
    ensures failed { result.code ≢ 0 → BothHold (λ old rhs. (old.stage ≢ Reading) ⊎ (rhs.stage ≢ Reading)
        → result.code ≡ 12) context.old.value newer.value }
    ensures text { HasText result text.old text.new }
{
    answer_or_drop!(held in context, alloc, text; merge_newer(&mut *held, newer.into_held(), to_queue(is_rewrite)))
}

/// Takes in `newer`, the context of the batches that follow in the same `queue`.
///
/// # Errors
///
/// Those of [`MemTableRecoverContext::merge`]. A context that read on has failed then; one that didn't is unchanged.
fn merge_newer(
    context: &mut MemTableRecoverContext,
    newer: MemTableRecoverContext,
    queue: LogQueue,
) -> Result<()>
    ensures ok { OnOk result (IsMergedWith queue newer context.old context.new) }
    ensures stands { OnOk result (StandsForBoth newer context.old context.new) }
    ensures exact { OnOk result (StandsForBothExactly newer context.old context.new) }
    ensures refused { IfErr result (λ e. e ≢ Error.Memory → AreUnsound queue context.old newer) }
    ensures fault { IfErr result (IsNeighborFault queue context.old newer) }
    ensures failed { (context.old.stage ≢ Reading) ⊎ (newer.stage ≢ Reading) → IfErr result (λ e. e ≡ Error.Failed) }
{
    context.merge(newer, queue)
}

/// Takes in `append`, the context of the append queue; `context` is that of the rewrite queue. `append` is gone then. The code
/// is 0, or that of the error: 12 (`Failed`), if one of both doesn't read on, or 11 (`Memory`), the only one if they are
/// contexts of the two queues. After an error `context` is empty.
#[unsafe(no_mangle)]
pub extern "C" fn raft_ffi_context_overlay(
    alloc: Global,
    context: &mut Context,
    append: Context,
    text: &mut [u8],
) -> Status
    requires held { IsTrue (is_some context.old.value) }
    requires append { IsTrue (is_some append.value) }
    ensures ok { result.code ≡ 0 → AllHold IsOverlaidWith append.value context.old.value context.new.value }
    ensures exact { result.code ≡ 0 → AllHold IsOverlaidExactly append.value context.old.value context.new.value }
    ensures err { result.code ≢ 0 → context.new.value ≡ None }
    ensures fault { result.code ≢ 0 → IsCodeForBoth IsMergeAppendFault context.old.value append.value result.code }
    ensures memory { result.code ≢ 0 → BothHold (λ old rhs. AreOfTwoQueues old rhs
        → result.code ≡ 11) context.old.value append.value }
    ensures failed { result.code ≢ 0 → BothHold (λ old rhs. (old.stage ≢ Reading) ⊎ (rhs.stage ≢ Reading)
        → result.code ≡ 12) context.old.value append.value }
    ensures text { HasText result text.old text.new }
{
    answer_or_drop!(held in context, alloc, text; overlay_append(&mut *held, append.into_held()))
}

/// Takes in `append`, the context of the append queue, over this one, that of the rewrite queue.
///
/// # Errors
///
/// Those of [`MemTableRecoverContext::merge_append_context`]. A context that read on has failed then; one that didn't is
/// unchanged.
fn overlay_append(
    context: &mut MemTableRecoverContext,
    append: MemTableRecoverContext,
) -> Result<()>
    ensures ok { OnOk result (IsOverlaidWith append context.old context.new) }
    ensures exact { OnOk result (IsOverlaidExactly append context.old context.new) }
    ensures fault { IfErr result (IsMergeAppendFault context.old append) }
    ensures memory { AreOfTwoQueues context.old append → IfErr result (λ e. e ≡ Error.Memory) }
    ensures failed { (context.old.stage ≢ Reading) ⊎ (append.stage ≢ Reading) → IfErr result (λ e. e ≡ Error.Failed) }
{
    context.merge_append_context(append)
}

/// Sets `kept` to how much a context holds. The code is 0, or 12 (`Failed`) for a context that failed: `kept` isn't set then.
/// The context is unchanged.
#[unsafe(no_mangle)]
pub extern "C" fn raft_ffi_context_kept(
    alloc: Global,
    context: &mut Context,
    kept: &mut KeptNumbers,
    text: &mut [u8],
) -> Status
    requires held { IsTrue (is_some context.old.value) }
    ensures kept { IsReadOrRefused result.code (λ c. AreKept (kept_of c.context) kept.new × (c.stage ≢ Failed)) IsOfFailed
        context.old.value context.new.value }
    ensures text { HasText result text.old text.new }
{
    answer_with_value!(held in context, alloc, text; count_kept(&*held, kept))
}

/// Sets `kept` to how much a context holds.
///
/// # Errors
///
/// `Failed` alone, if the context failed. `kept` isn't set then.
fn count_kept(context: &MemTableRecoverContext, kept: &mut KeptNumbers) -> Result<()>
    ensures ok { OnOk result (AreKept (kept_of context.now.context) kept.new) }
    ensures accepted { OnOk result (context.now.stage ≢ Failed) }
    ensures fault { IfErr result (IsOfFailed context.now) }
{
    let shown = context.kept()?;
    *kept = KeptNumbers {
        entries: cap_to_u64(shown.entries),
        keys: cap_to_u64(shown.keys),
        marks: cap_to_u64(shown.marks),
        deleted_keys: cap_to_u64(shown.deleted_keys),
        cleaned: cap_to_u64(shown.cleaned),
        waiting_items: cap_to_u64(shown.waiting_items),
    };
    Ok(())
}

/// Returns a number, or 2^64 - 1 if it is above that.
fn cap_to_u64(number: u128) -> u64
    ensures { result ≡ capped number }
{
    number.min(u128::from(u64::MAX)) as u64
}

/// Makes the tables of a context in `tables`, which is empty before. The context is gone then. The code is 0; 12 (`Failed`),
/// for a context that failed; or 11 (`Memory`). `tables` stays empty after an error.
#[unsafe(no_mangle)]
pub extern "C" fn raft_ffi_context_finish(
    alloc: Global,
    context: Context,
    tables: &mut Tables,
    text: &mut [u8],
) -> Status
    requires held { IsTrue (is_some context.value) }
    requires empty { tables.old.value ≡ None }
    ensures ok { result.code ≡ 0 → BothHold AreTablesOf context.value tables.new.value }
    ensures reading { result.code ≡ 0 → BothHold HasTablesRead context.value tables.new.value }
    ensures overlaid { result.code ≡ 0 → BothHold HasBothRead context.value tables.new.value }
    ensures accepted { result.code ≡ 0 → Holds (λ c. c.stage ≢ Failed) context.value }
    ensures err { result.code ≢ 0 → tables.new.value ≡ None }
    ensures fault { result.code ≢ 0 → IsCodeFor (λ c. IsMemoryOr (IsOfFailed c)) context.value result.code }
    ensures text { HasText result text.old text.new }
{
    let answer = match finish_into_box(alloc, context.into_held()) {
        Ok(held) => {
            tables.put(held);
            Ok(())
        }
        Err(e) => Err(e),
    };
    status_of(alloc, &answer, text)
}

/// Makes the tables of a context, and returns them in a box.
///
/// # Errors
///
/// `Failed` if the context failed; `Memory`. The context is gone then.
fn finish_into_box(alloc: Global, context: MemTableRecoverContext) -> Result<Box<MemTableAccessor>>
    ensures ok { IfOk result (λ a. AreTablesOf context a.value) }
    ensures reading { IfOk result (λ a. HasTablesRead context a.value) }
    ensures overlaid { IfOk result (λ a. HasBothRead context a.value) }
    ensures accepted { OnOk result (context.stage ≢ Failed) }
    ensures fault { IfErr result (IsMemoryOr (IsOfFailed context)) }
{
    let accessor = context.finish()?;
    Ok(Box::new(alloc, accessor)?)
}

/// Frees the context.
#[unsafe(no_mangle)]
pub extern "C" fn raft_ffi_context_drop(context: Context)
    requires held { IsTrue (is_some context.value) }
{
    drop(context.into_box());
}
