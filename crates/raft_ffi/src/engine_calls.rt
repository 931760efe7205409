//! Exported calls of an engine whose files the caller keeps. What changes it leaves orders behind, which the caller carries
//! out in turn.

ghost use Rattle.std.specs.Prelude.{◌≡◌, ◌≢◌, true, Some, None, IsTrue, is_some, IfOk};
ghost use Rattle.raft_ffi.specs.Words.{AllHold, AreAcceptedOncePlaced, ArePurged, AreRewritesPurged, AreRewritesUnpurged, AreSomeReadAs, BothHold, HandedFails, HasText, Holds, IsCodeForBoth, IsCodeOf, IsOpenedAs, IsRead, IsRotated};
ghost use Rattle.raft_ffi.specs.Words.{AreTailsIn, IsSynced, IsUnopenedAs, IsUnpurged, IsUnrotated, IsUnsynced, IsUnwrittenAs, IsWrittenOrNone, empty_batch, is_open, mode_of, version_of};

use crate::handles::{Batch, Engine, Handle, Reader, answer_with_value, with_value};
use crate::opening::open_into;
use crate::read_queue::Size;
use crate::status::{Status, Tail, status_of, to_recovery_mode, to_version};
use raft_base::Result;
use raft_engine::Recovered;
use std::alloc::Global;

/// Makes an engine in `engine`, which is empty before, over files that two readers have read. `append` and `rewrite` are the
/// numbers and lengths of each queue's files, oldest first. `appended` and `rewritten` have read their batches, in order, up
/// to where the last file can't be read, and `append_rest` and `rewrite_rest` are the bytes from there on. Both readers are
/// gone then.
///
/// `mode` says what may be cut off: nothing for 0; all from there on for 2; what a crash can leave for any other.
/// `append_tail` and `rewrite_tail` are set to what was cut off from each queue, with the reason in `append_reason` and
/// `rewrite_reason`. The code is 0, or that of the error: `engine` stays empty then.
#[unsafe(no_mangle)]
pub extern "C" fn raft_ffi_engine_open(
    alloc: Global,
    engine: &mut Engine,
    append: &[Size],
    append_rest: &[u8],
    rewrite: &[Size],
    rewrite_rest: &[u8],
    appended: Reader,
    rewritten: Reader,
    is_signed: bool,
    mode: u32,
    append_tail: &mut Tail,
    append_reason: &mut [u8],
    rewrite_tail: &mut Tail,
    rewrite_reason: &mut [u8],
    text: &mut [u8],
) -> Status
    requires empty { engine.old.value ≡ None }
    requires read { BothHold (λ a r. AreSomeReadAs (version_of is_signed) append.now append_rest.now rewrite.now rewrite_rest.now
        a.read r.read) appended.value rewritten.value }
    ensures ok { result.code ≡ 0 → AllHold (λ a r e. (recovered : Recovered) × IsOpenedAs (mode_of mode) (version_of is_signed)
        append.now append_rest.now rewrite.now rewrite_rest.now a.read r.read e recovered × AreTailsIn append_tail.new rewrite_tail.new
        append_reason.old append_reason.new rewrite_reason.old rewrite_reason.new recovered) appended.value rewritten.value engine.new.value }
    ensures err { result.code ≢ 0 → engine.new.value ≡ None }
    ensures fault { result.code ≢ 0 → BothHold (λ a r. IsCodeOf (IsUnopenedAs (mode_of mode) (version_of is_signed) append.now
        append_rest.now rewrite.now rewrite_rest.now a.read r.read) result.code) appended.value rewritten.value }
    ensures text { HasText result text.old text.new }
{
    let appended = appended.into_held().into_both();
    let rewritten = rewritten.into_held().into_both();
    let answer = open_into(
        engine,
        alloc,
        to_recovery_mode(mode),
        to_version(is_signed),
        append,
        append_rest,
        rewrite,
        rewrite_rest,
        appended,
        rewritten,
    );
    set_tails(
        alloc,
        &answer,
        append_tail,
        append_reason,
        rewrite_tail,
        rewrite_reason,
    );
    status_of(alloc, &answer, text)
}

/// Sets the tails and the texts of their reasons to what an opening cut off, as far as there is room for the texts. Nothing is
/// set if the opening failed.
fn set_tails(
    alloc: Global,
    answer: &Result<Recovered>,
    append_tail: &mut Tail,
    append_reason: &mut [u8],
    rewrite_tail: &mut Tail,
    rewrite_reason: &mut [u8],
)
    ensures { IfOk answer.now (AreTailsIn append_tail.new rewrite_tail.new append_reason.old append_reason.new
        rewrite_reason.old rewrite_reason.new) }
{
    if let Ok(recovered) = answer {
        *append_tail = Tail::of_cut_tail(alloc, &recovered.append, append_reason);
        *rewrite_tail = Tail::of_cut_tail(alloc, &recovered.rewrite, rewrite_reason);
    }
}

/// Tests whether the engine takes further calls that change it.
#[unsafe(no_mangle)]
pub extern "C" fn raft_ffi_engine_is_intact(alloc: Global, engine: &mut Engine) -> bool
    requires held { IsTrue (is_some engine.old.value) }
    ensures intact { IsRead (λ e. e.intact ≡ result) engine.old.value engine.new.value }
{
    with_value!(held in engine, alloc; held.engine.is_intact())
}

/// Writes `batch`, an open one, to the tables, and orders that it is put after the bytes of the last append file. `batch` is
/// without items then. With `sync` a sync is ordered after it. The code is 0, or that of the error: 12 (`Failed`), if the
/// engine wasn't intact. If the engine is intact after an error, it is as it was, and `batch` has the items and entries that it
/// had; it may take no more then.
#[unsafe(no_mangle)]
pub extern "C" fn raft_ffi_engine_write(
    alloc: Global,
    engine: &mut Engine,
    batch: &mut Batch,
    sync: bool,
    text: &mut [u8],
) -> Status
    requires held { IsTrue (is_some engine.old.value) }
    requires batch { IsTrue (is_some batch.old.value) }
    requires open { Holds (λ b. b.stage ≡ is_open) batch.old.value }
    ensures ok { result.code ≡ 0 → AllHold (IsWrittenOrNone sync) batch.old.value engine.old.value engine.new.value }
    ensures emptied { result.code ≡ 0 → batch.new.value ≡ Some empty_batch }
    ensures accepted { result.code ≡ 0 → Holds (λ e. e.intact ≡ true) engine.old.value }
    ensures tested { result.code ≡ 0 → BothHold
        (λ e b. AreAcceptedOncePlaced e.accessor.tables b.items) engine.old.value batch.old.value }
    ensures err { result.code ≢ 0 → BothHold (λ old new. IsUnwrittenAs sync result.code batch.old.value batch.new.value
        old new) engine.old.value engine.new.value }
    ensures text { HasText result text.old text.new }
{
    answer_with_value!(held in engine, alloc, text; with_value!(written in batch, alloc; held.engine.write(&mut *written, sync)))
}

/// Orders a sync of the append queue, so that all that was written outlasts a crash once the sync is carried out. The code is
/// 0; 12 (`Failed`), if the engine isn't intact; or that of the error with which no order can be noted: the engine isn't
/// intact any more then.
#[unsafe(no_mangle)]
pub extern "C" fn raft_ffi_engine_sync(
    alloc: Global,
    engine: &mut Engine,
    text: &mut [u8],
) -> Status
    requires held { IsTrue (is_some engine.old.value) }
    ensures ok { result.code ≡ 0 → BothHold IsSynced engine.old.value engine.new.value }
    ensures accepted { result.code ≡ 0 → Holds (λ e. e.intact ≡ true) engine.old.value }
    ensures err { result.code ≢ 0 → IsCodeForBoth (IsUnsynced HandedFails) engine.old.value engine.new.value result.code }
    ensures text { HasText result text.old text.new }
{
    answer_with_value!(held in engine, alloc, text; held.engine.sync())
}

/// Orders that the last append file is synced and a new one begun, to which the next batch goes. The code is 0; 12 (`Failed`),
/// if the engine isn't intact; 9 (`Full`), if no number of a file or of an order is left; or 11 (`Memory`).
#[unsafe(no_mangle)]
pub extern "C" fn raft_ffi_engine_rotate(
    alloc: Global,
    engine: &mut Engine,
    text: &mut [u8],
) -> Status
    requires held { IsTrue (is_some engine.old.value) }
    ensures ok { result.code ≡ 0 → BothHold IsRotated engine.old.value engine.new.value }
    ensures accepted { result.code ≡ 0 → Holds (λ e. e.intact ≡ true) engine.old.value }
    ensures err { result.code ≢ 0 → IsCodeForBoth (IsUnrotated HandedFails) engine.old.value engine.new.value result.code }
    ensures text { HasText result text.old text.new }
{
    answer_with_value!(held in engine, alloc, text; held.engine.rotate())
}

/// Orders that the append files which no table needs are deleted, the oldest first but never the last one, and sets `count` to
/// how many. Before that it has the rewrite queue told what these files took away. The code is 0, or that of the error: 12
/// (`Failed`), if the engine isn't intact.
#[unsafe(no_mangle)]
pub extern "C" fn raft_ffi_engine_purge_expired_files(
    alloc: Global,
    engine: &mut Engine,
    count: &mut usize,
    text: &mut [u8],
) -> Status
    requires held { IsTrue (is_some engine.old.value) }
    ensures ok { result.code ≡ 0 → BothHold (ArePurged count.new) engine.old.value engine.new.value }
    ensures accepted { result.code ≡ 0 → Holds (λ e. e.intact ≡ true) engine.old.value }
    ensures err { result.code ≢ 0 → IsCodeForBoth (IsUnpurged HandedFails) engine.old.value engine.new.value result.code }
    ensures text { HasText result text.old text.new }
{
    answer_with_value!(held in engine, alloc, count, text; held.engine.purge_expired_files())
}

/// Orders that the rewrite files which no table needs are deleted, the oldest first but never the last one, and sets `count`
/// to how many. Before that it orders a sync of both queues. The code is 0, or that of the error: 12 (`Failed`), if the engine
/// isn't intact.
#[unsafe(no_mangle)]
pub extern "C" fn raft_ffi_engine_purge_rewrite_files(
    alloc: Global,
    engine: &mut Engine,
    count: &mut usize,
    text: &mut [u8],
) -> Status
    requires held { IsTrue (is_some engine.old.value) }
    ensures ok { result.code ≡ 0 → BothHold (AreRewritesPurged count.new) engine.old.value engine.new.value }
    ensures accepted { result.code ≡ 0 → Holds (λ e. e.intact ≡ true) engine.old.value }
    ensures err { result.code ≢ 0 → IsCodeForBoth (AreRewritesUnpurged HandedFails) engine.old.value engine.new.value result.code }
    ensures text { HasText result text.old text.new }
{
    answer_with_value!(held in engine, alloc, count, text; held.engine.purge_rewrite_files())
}

/// Frees the engine. Orders that still wait are lost.
#[unsafe(no_mangle)]
pub extern "C" fn raft_ffi_engine_drop(engine: Engine)
    requires held { IsTrue (is_some engine.value) }
{
    drop(engine.into_box());
}
