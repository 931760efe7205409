//! Definitions of each library, named in contracts of a crate that lists only the four crates which users
//! import from.
//!
//! Each function pins names of definitions: its contract compiles only as long as these are there. None is called.

ghost use Rattle.std.specs.Prelude.{◌≡◌, [], ◌∷◌, IfOk, IsTrue};
ghost use Rattle.raft_base.specs.declared.pipe_log.LogQueue.TheVariants.{Append};
ghost use Rattle.raft_base.specs.Checksum.{crc32_of};
ghost use Rattle.raft_base.specs.CodecErrors.{IsIo};
ghost use Rattle.raft_base.specs.Reading.{HasNoFront, Reads};
ghost use Rattle.raft_base.specs.Signature.{signature_of};
ghost use Rattle.raft_base.specs.SizeText.{IsSizeText};
ghost use Rattle.raft_base.specs.Varint.{IsVarint};
ghost use Rattle.raft_records.specs.Runs.{IsConsecutive};
ghost use Rattle.raft_records.specs.Item.{item_of};
ghost use Rattle.raft_records.specs.SizeText.{IsSizeText as IsTextOfSize};
ghost use Rattle.raft_records.specs.Varint.{IsVarint as IsNumber};
ghost use Rattle.raft_memtable.specs.Accessor.{AreCountsOf, slot_of};
ghost use Rattle.raft_memtable.specs.AccessorCalls.{IsWritten};
ghost use Rattle.raft_memtable.specs.Histories.{IsSmall};
ghost use Rattle.raft_memtable.specs.RecoverContext.{HasReadExactly};
ghost use Rattle.raft_memtable.specs.ReplayMachine.{event};
ghost use Rattle.raft_memtable.specs.Table.{IsCounted};
ghost use Rattle.raft_memtable.specs.TableEntries.{IsRunIn, from};
ghost use Rattle.raft_memtable.specs.Writes.{Appending};
ghost use Rattle.raft_recover.specs.Draws.{IsSeatOf};
ghost use Rattle.raft_recover.specs.Recovery.{IsRecovered};
ghost use Rattle.raft_recover.specs.Segments.{SegmentsHold, SegmentsAreOf};
ghost use Rattle.raft_recover.specs.Slot.{HoldsOwnTables};

use raft_base::codec::{BytesSlice, decode_var_u64};
use raft_base::{FileId, LogQueue, ReadableSize, SizeError, codec, crc32};
use raft_memtable::{
    EntryIndex, GlobalStats, LogItem, LogItemBatch, MemTable, MemTableAccessor,
    MemTableRecoverContext, ReplayMachine, Result,
};
use raft_records::{LogFileContext, is_consecutive};
use raft_recover::{Segment, Slot, TicketSeat, Tickets, recover};
use std::alloc::Global;
use std::str::FromStr;
use std::thread::Threads;

/// Tests whether no number begins `bytes`. Names `HasNoFront` and `IsVarint` of `raft_codec` in a condition on the
/// caller.
fn is_no_number(bytes: &[u8]) -> bool
    requires { HasNoFront IsVarint bytes.now }
{
    let mut rest = bytes;
    decode_var_u64(&mut rest).is_err()
}

/// Returns the number at the front of `bytes`, which move on behind it. Names `Reads` and `IsNumber` of `raft_codec` in
/// a promise.
///
/// # Errors
///
/// Those of `decode_var_u64`.
fn number_in_front(bytes: &mut BytesSlice<'_>) -> codec::Result<u64>
    ensures { IfOk result (Reads IsNumber bytes.old.now bytes.new.now) }
{
    decode_var_u64(bytes)
}

/// Tests whether an error is `Io`. Names `IsIo` of `raft_codec` in a condition on the caller.
fn is_io(error: &codec::Error) -> bool
    requires { IsIo error.now }
{
    matches!(error, codec::Error::Io(_))
}

/// Tests whether `checksum` is that of `bytes`. Names `crc32_of` of `raft_checksum`.
fn has_checksum(bytes: &[u8], checksum: u32) -> bool
    requires { checksum ≡ crc32_of bytes.now }
    ensures { IsTrue result }
{
    crc32(bytes) == checksum
}

/// Reads a text that stands for 1,024 bytes. Names `IsSizeText` of `raft_size`.
///
/// # Errors
///
/// Those of `ReadableSize::from_str`.
fn size_of_text(text: &str) -> std::result::Result<ReadableSize, SizeError>
    requires { IsSizeText text.now 1024 }
{
    ReadableSize::from_str(text)
}

/// Reads a text that stands for 1,024 bytes. Names `IsSizeText`, as `raft_records` hands it on.
///
/// # Errors
///
/// Those of `ReadableSize::from_str`.
fn size_of_record_text(text: &str) -> std::result::Result<ReadableSize, SizeError>
    requires { IsTextOfSize text.now 1024 }
{
    ReadableSize::from_str(text)
}

/// Returns the signature of a file's batches. Names `signature_of` of `raft_base` in a promise.
fn signature(context: &LogFileContext) -> Option<u32>
    ensures { result ≡ signature_of context.now }
{
    context.get_signature()
}

/// Tests whether entries are consecutive. Names `IsConsecutive` of `raft_records` in a condition on the caller.
fn are_consecutive(entries: &[EntryIndex]) -> bool
    requires { IsConsecutive entries.now }
    ensures { IsTrue result }
{
    is_consecutive(entries)
}

/// Appends a run to a table. Names `IsRunIn` and `IsCounted` of `raft_table` in conditions on the caller.
///
/// # Errors
///
/// Those of `MemTable::append`.
fn append(table: &mut MemTable, run: Vec<EntryIndex>, stats: &mut GlobalStats) -> Result<()>
    requires run { IsRunIn Append run.items }
    requires counted { IsCounted table.old stats.old }
{
    table.append(run, stats)
}

/// Drops the entries below index 5, and returns how many these were. Names `IsCounted` and `from` of `raft_table`.
fn compact(table: &mut MemTable, stats: &mut GlobalStats) -> u64
    requires { IsCounted table.old stats.old }
    ensures { table.new ≡ record table.old { entries = from 5 table.old.entries } }
{
    table.compact_to(5, stats)
}

/// Replays the first batch of a machine. Names `IsSmall` and `event` of `raft_history` in conditions on the caller.
///
/// # Errors
///
/// Those of `ReplayMachine::replay`.
fn first_batch<M: ReplayMachine>(machine: &mut M, batch: LogItemBatch, file: FileId) -> Result<()>
    requires stands { M.stands_for machine.old [] }
    requires small { IsSmall (event batch file ∷ []) }
{
    machine.replay(batch, file)
}

/// Returns how many appended records are live. Names `AreCountsOf` of `raft_accessor` in a condition on the caller.
fn live_of(accessor: &MemTableAccessor) -> usize
    requires { AreCountsOf accessor.now.tables accessor.now.counts }
{
    accessor.stats().live_entries(LogQueue::Append)
}

/// Applies a new item to a slot. Names `slot_of`, `item_of`, `IsWritten` and `Appending` of `raft_accessor`.
///
/// # Errors
///
/// Those of `Slot::apply_append_write`.
fn write(slot: &mut Slot, item: LogItem) -> Result<()>
    requires { slot_of item.raft_group_id ≡ slot.old.number }
    ensures { IsWritten Appending (item_of item) result slot.old.content slot.new.content }
{
    slot.apply_append_write(item)
}

/// Tests whether a slot has no table. Names `HoldsOwnTables` of `raft_shared` in a condition on the caller.
fn is_empty(slot: &Slot) -> bool
    requires { HoldsOwnTables slot.now }
{
    slot.is_empty()
}

/// Returns the tables of a context that has read nothing. Names `HasReadExactly` of `raft_memtable` in a condition on
/// the caller.
///
/// # Errors
///
/// Those of `MemTableRecoverContext::finish`.
fn tables_of_nothing(context: MemTableRecoverContext) -> Result<MemTableAccessor>
    requires { HasReadExactly context [] }
{
    context.finish()
}

/// Draws a ticket for a seat, and returns its number; `None` if none is left. Names `IsSeatOf` of `raft_tickets`.
fn draw(tickets: &Tickets, seat: &mut TicketSeat) -> Option<usize>
    requires { IsSeatOf tickets.now seat.old }
    ensures { IsSeatOf tickets.now seat.new }
{
    tickets.draw(seat)
}

/// Returns the tables that a recovery of append files gives. Names `SegmentsAreOf`, `SegmentsHold` and `IsRecovered` of
/// `raft_recover`.
///
/// # Errors
///
/// Those of `recover`.
fn appended<R: Threads + Sync>(
    rt: &R,
    alloc: Global,
    segments: &[Segment],
) -> Result<MemTableAccessor>
    requires { SegmentsAreOf Append segments.now }
    ensures { IfOk result (IsRecovered Append (SegmentsHold segments.entry.now)) }
{
    recover(rt, alloc, segments, LogQueue::Append, 4)
}
