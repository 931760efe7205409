//! Exported calls that move records of an engine to the rewrite queue, and that lend it the blocks which it reads for that.

ghost use Rattle.std.specs.Prelude.{◌≡◌, ◌≢◌, true, IsTrue, is_some, List, IfErr};
ghost use Rattle.raft_ffi.specs.Words.{HandedFails, AreMovedAgain, AreUnmovedAgain, BothHold, HasText, Holds, IsCodeForBoth, IsCopied, IsRewritten, IsUnrewritten};

use crate::handles::{Engine, Handle, answer_with_value, unwrap_or_return, with_value};
use crate::status::{Maybe, Status, copy_front, is_rewrite_queue, to_queue};
use raft_accessor::MemTableAccessor;
use raft_base::{Error, FileId, FileSeq, Result};
use raft_engine::rewriting::entries_to_move;
use std::alloc::Global;
use std::collections::BTreeSet;

/// The place of an entry block.
#[repr(C)]
#[derive(Clone, Copy)]
pub struct Place {
    /// The number of its file.
    pub seq: u64,
    /// Its offset in the file.
    pub offset: u64,
    /// Its length in bytes.
    pub len: usize,
    /// Whether the file is of the rewrite queue.
    pub is_rewrite: bool,
}

/// Moves what the tables have in append files numbered at or below `gate` to the rewrite queue. The blocks that were lent are
/// dropped, after an error too. The code is 0, or that of the error: 12 (`Failed`), if the engine isn't intact; 6
/// (`TryAgain`), if a block has to be read that isn't lent: the engine is intact then, and some regions may have moved.
#[unsafe(no_mangle)]
pub extern "C" fn raft_ffi_engine_rewrite(
    alloc: Global,
    engine: &mut Engine,
    gate: u64,
    text: &mut [u8],
) -> Status
    requires held { IsTrue (is_some engine.old.value) }
    ensures ok { result.code ≡ 0 → BothHold (IsRewritten gate) engine.old.value engine.new.value }
    ensures accepted { result.code ≡ 0 → Holds (λ e. e.intact ≡ true) engine.old.value }
    ensures err { result.code ≢ 0 → IsCodeForBoth (IsUnrewritten HandedFails gate) engine.old.value engine.new.value result.code }
    ensures text { HasText result text.old text.new }
{
    answer_with_value!(held in engine, alloc, text; held.rewrite(gate))
}

/// Moves what the tables have in rewrite files to a new one of them. The blocks that were lent are dropped, after an error
/// too. The code is 0, or that of the error: 12 (`Failed`), if the engine isn't intact; 6 (`TryAgain`), if a block has to be
/// read that isn't lent: the engine is intact then, and some regions may have moved.
#[unsafe(no_mangle)]
pub extern "C" fn raft_ffi_engine_rewrite_again(
    alloc: Global,
    engine: &mut Engine,
    text: &mut [u8],
) -> Status
    requires held { IsTrue (is_some engine.old.value) }
    ensures ok { result.code ≡ 0 → BothHold AreMovedAgain engine.old.value engine.new.value }
    ensures accepted { result.code ≡ 0 → Holds (λ e. e.intact ≡ true) engine.old.value }
    ensures err { result.code ≢ 0 → IsCodeForBoth (AreUnmovedAgain HandedFails) engine.old.value engine.new.value result.code }
    ensures text { HasText result text.old text.new }
{
    answer_with_value!(held in engine, alloc, text; held.rewrite_again())
}

/// Lists in `places` the blocks, each once, that have to be read if records move: with a gate those of the append files
/// numbered at or below it, without one those of the rewrite files. They are listed region by region, until the listed ones
/// have `max_size` bytes, as many as there is room for. Sets `count` to how many there are, which may be more. Returns 0, or
/// 11 (`Memory`): nothing is set then. The list is a hint: no promise rests on it.
#[unsafe(no_mangle)]
pub extern "C" fn raft_ffi_engine_moving_blocks(
    alloc: Global,
    engine: &mut Engine,
    gate: Maybe,
    max_size: usize,
    places: &mut [Place],
    count: &mut usize,
) -> u32
    requires held { IsTrue (is_some engine.old.value) }
    ensures same { engine.new.value ≡ engine.old.value }
    ensures ok { result ≡ 0 → (found : List Place) × IsCopied found places.old places.new count.new }
    ensures fault { result ≢ 0 → result ≡ 11 }
{
    let gate = gate.to_option();
    let found =
        with_value!(held in engine, alloc; blocks_to_move(alloc, held.engine.accessor(), gate, max_size));
    *count = copy_front(unwrap_or_return!(found).as_slice(), places);
    0
}

/// Lends the engine a copy of `bytes`, the block that stands at `offset` of file `seq`, until the next call that moves
/// records. Returns 0, or 11 (`Memory`): the block isn't lent then.
#[unsafe(no_mangle)]
pub extern "C" fn raft_ffi_engine_lend(
    alloc: Global,
    engine: &mut Engine,
    is_rewrite: bool,
    seq: u64,
    offset: u64,
    bytes: &[u8],
) -> u32
    requires held { IsTrue (is_some engine.old.value) }
    ensures same { engine.new.value ≡ engine.old.value }
    ensures fault { result ≢ 0 → result ≡ 11 }
{
    answer_with_value!(held in engine, alloc; held.lend_block(FileId::new(to_queue(is_rewrite), seq), offset, bytes))
}

/// Returns the places of the blocks, each once, that have to be read if records move: with a gate those of the append files
/// numbered at or below it, without one those of the rewrite files. They are listed table by table, until they have `max_size`
/// bytes.
///
/// # Errors
///
/// `Memory` alone.
fn blocks_to_move(
    alloc: Global,
    accessor: &MemTableAccessor,
    gate: Option<FileSeq>,
    max_size: usize,
) -> Result<Vec<Place>>
    ensures memory { IfErr result (λ e. e ≡ Error.Memory) }
{
    let mut places = Vec::new(alloc);
    let mut known = BTreeSet::new(alloc);
    let mut last = None;
    let mut size = 0usize;
    let tables = accessor.tables()?;
    for table in &tables {
        if size >= max_size {
            return Ok(places);
        }
        let entries = entries_to_move(alloc, table, gate)?;
        for entry in &entries {
            let Some(place) = entry.entries else { continue };
            if last == Some(place) {
                continue;
            }
            last = Some(place);
            if known.insert((place.id, place.offset))? {
                places.push(Place {
                    seq: place.id.seq,
                    offset: place.offset,
                    len: place.len,
                    is_rewrite: is_rewrite_queue(place.id.queue),
                })?;
                size = size.saturating_add(place.len);
            }
        }
    }
    Ok(places)
}
