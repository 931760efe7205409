//! Scans of log files for damage: which batches and which entries can't be read.

ghost use Rattle.std.specs.Prelude.{◌≡◌, ◌++◌, ◌<◌, ◌^◌, ℕ, [], List, map, IfErr, IfOk, IfSome, OnOk};
ghost use Rattle.raft_records.specs.FilePart.{Part};
ghost use Rattle.raft_records.specs.Item.{item_of};
ghost use Rattle.raft_listing.specs.ReadBlocks.{IsReadBlock};
ghost use Rattle.raft_listing.specs.ScanSums.{IsSummedUp};
ghost use Rattle.raft_listing.specs.Scanned.{AreSaidOf, AreSaidOfEntries, IsScanned};
ghost use Rattle.raft_listing.specs.Stretches.{IsItemSaid, IsLonger, IsTakenIn, said_of_stretch, stretch_of};
ghost use Rattle.raft_listing.specs.Walks.{AreVisited, Met};

use crate::blocks::{ReadBlock, loss_of_entry, read_first_block};
use crate::damage::{Damage, DamageKind, Loss};
use crate::walk::PartVisitor;
use raft_base::{EntryIndex, Error, FileSeq, Result};
use raft_records::{FilePart, LogItem, LogItemContent};
use std::alloc::Global;

/// What a scan of a log file has found. It is a visitor of walks: each walk through a part of the file adds what it meets.
#[derive(Debug, Drop)]
pub struct FileScan {
    /// The number of the file.
    pub seq: FileSeq,
    /// The length of the file in bytes.
    pub len: u64,
    /// The number of batches that can be read, those after damage too.
    pub batches: u64,
    /// The offset up to which batches can be read one after another from the first byte on: that of the first byte at which none can be, or
    /// the length of the file.
    pub read: u64,
    /// The number of bytes at the end that weren't searched for batches: from the byte on at which no batch can be read and from which no
    /// header leads on. 0 if there is no such byte.
    pub unseen: u64,
    /// What can't be read, in the order of the file.
    pub damages: Vec<Damage>,
}

impl FileScan {
    /// Returns the scan of a file that has met nothing yet. `seq` is the number of the file, `len` its length in bytes. Nothing is
    /// allocated.
    pub fn new(alloc: Global, seq: FileSeq, len: u64) -> FileScan
        ensures seq { result.seq ≡ seq }
        ensures len { result.len ≡ len }
        ensures batches { result.batches ≡ 0 }
        ensures read { result.read ≡ len }
        ensures seen { result.unseen ≡ 0 }
        ensures none { result.damages.items ≡ [] }
    {
        FileScan {
            seq,
            len,
            batches: 0,
            read: len,
            unseen: 0,
            damages: Vec::new(alloc),
        }
    }
}

impl PartVisitor for FileScan {
    ghost use Rattle.std.specs.Prelude.{◌≡◌};
    ghost use Rattle.raft_base.specs.declared.errors.Error.TheVariants.{Memory};
    ghost use Rattle.raft_listing.specs.Scanned.{IsScanned};

    ghost visits = { IsScanned };

    ghost may_fail = { λ e. e ≡ Memory };

    /// Counts a batch, and adds to `damages` its entries that can't be read.
    ///
    /// # Errors
    ///
    /// `Memory` alone. The batch isn't counted then, but some of its entries may have been added.
    fn visit_batch(
        &mut self,
        part: &FilePart,
        at: usize,
        _next: usize,
        items: &[LogItem],
    ) -> Result<()> {
        let offset = part.offset() + at as u64;
        add_batch_losses(part, offset, items, &mut self.damages)?;
        self.batches = self.batches.saturating_add(1);
        Ok(())
    }

    /// Adds to `damages` a byte at which no batch can be read, and sets `read` back to it if it is the first. If no header leads on, the
    /// rest of the file counts as `unseen`.
    ///
    /// # Errors
    ///
    /// `Memory` alone. The scan is unchanged then.
    fn visit_damage(
        &mut self,
        part: &FilePart,
        at: usize,
        next: Option<usize>,
        reason: Error,
    ) -> Result<()> {
        let offset = part.offset() + at as u64;
        let kind = DamageKind::Batch(reason);
        self.damages.push(Damage { offset, kind })?;
        self.read = self.read.min(offset);
        if next.is_none() {
            self.unseen = self.len.saturating_sub(offset);
        }
        Ok(())
    }
}

/// Neighboring entries of one item that can't be read, all for one reason.
#[derive(Clone, Copy)]
pub(crate) struct Stretch {
    /// The index of the first of them.
    pub first: u64,
    /// The index of the last of them.
    pub last: u64,
    /// The reason why they can't be read.
    pub loss: Loss,
}

/// Adds to `damages` the entries of a batch that can't be read, item by item. `offset` is that of the batch in its file.
///
/// # Errors
///
/// `Memory` alone, as of the calls below. Some of the entries may have been added then.
fn add_batch_losses(
    part: &FilePart,
    offset: u64,
    items: &[LogItem],
    damages: &mut Vec<Damage>,
) -> Result<()>
    ensures ok { OnOk result ((said : List Damage) × (damages.new.items ≡ damages.old.items ++ said)
        × AreSaidOf part.now offset (map item_of items.now) said) }
    ensures memory { IfErr result (λ e. e ≡ Error.Memory) }
{
    let known = read_first_block(part, items)?;
    for item in items {
        add_item_losses(part, offset, item, known, damages)?;
    }
    Ok(())
}

/// Adds to `damages` the entries of an item that can't be read; nothing if the item has no entries. `offset` is that of its batch, and
/// `known` the entry block that was read already.
fn add_item_losses(
    part: &FilePart,
    offset: u64,
    item: &LogItem,
    known: Option<ReadBlock<'_>>,
    damages: &mut Vec<Damage>,
) -> Result<()>
    requires { IfSome known (IsReadBlock part.now) }
    ensures ok { OnOk result (IsItemSaid part.now offset (item_of item.now) damages.old.items damages.new.items) }
    ensures memory { IfErr result (λ e. e ≡ Error.Memory) }
{
    let region = item.raft_group_id;
    match &item.content {
        LogItemContent::EntryIndexes(entries) => {
            let entries = entries.0.as_slice();
            add_entry_losses(part, offset, region, entries, known, damages)
        }
        LogItemContent::Command(_) | LogItemContent::Kv(_) => Ok(()),
    }
}

/// Adds to `damages` those of `entries`, an item's of one region, that can't be read. Neighbors that can't be read for one reason are added
/// as one element. `offset` is that of their batch, and `known` the entry block that was read already.
fn add_entry_losses(
    part: &FilePart,
    offset: u64,
    region: u64,
    entries: &[EntryIndex],
    known: Option<ReadBlock<'_>>,
    damages: &mut Vec<Damage>,
) -> Result<()>
    requires { IfSome known (IsReadBlock part.now) }
    ensures ok { OnOk result ((said : List Damage) × (damages.new.items ≡ damages.old.items ++ said)
        × AreSaidOfEntries part.now offset region entries.now said) }
    ensures memory { IfErr result (λ e. e ≡ Error.Memory) }
{
    let mut stretch = None;
    for entry in entries {
        let loss = loss_of_entry(part, entry, known)?;
        stretch = extend_or_end_stretch(offset, region, stretch, entry.index, loss, damages)?;
    }
    add_stretch(offset, region, stretch, damages)
}

/// Takes in the next entry of an item: `loss` is why it can't be read, or `None`. It makes `stretch` longer if it can; else `stretch` is
/// added to `damages`, and another one may begin with the entry. Returns the stretch that ends with the entry; `None` if the entry can be
/// read.
fn extend_or_end_stretch(
    offset: u64,
    region: u64,
    stretch: Option<Stretch>,
    index: u64,
    loss: Option<Loss>,
    damages: &mut Vec<Damage>,
) -> Result<Option<Stretch>>
    ensures ok { IfOk result (λ next. IsTakenIn offset region stretch index loss next damages.old.items damages.new.items) }
    ensures memory { IfErr result (λ e. e ≡ Error.Memory) }
{
    if let Some(longer) = longer_stretch(stretch, index, loss) {
        return Ok(Some(longer));
    }
    add_stretch(offset, region, stretch, damages)?;
    Ok(stretch_of_one_entry(index, loss))
}

/// Returns `stretch` made longer by the entry with the index `index`. `None` if there is no stretch, the entry can be read, or it can't be
/// for another reason.
fn longer_stretch(stretch: Option<Stretch>, index: u64, loss: Option<Loss>) -> Option<Stretch>
    ensures { IfSome result (IsLonger stretch index loss) }
{
    let (before, loss) = (stretch?, loss?);
    if before.loss != loss {
        return None;
    }
    Some(Stretch {
        first: before.first,
        last: index,
        loss,
    })
}

/// Returns the stretch of the entry with the index `index` alone; `None` if the entry can be read.
fn stretch_of_one_entry(index: u64, loss: Option<Loss>) -> Option<Stretch>
    ensures { result ≡ stretch_of index loss }
{
    let (first, last) = (index, index);
    match loss {
        Some(loss) => Some(Stretch { first, last, loss }),
        None => None,
    }
}

/// Adds a stretch of entries of the region `region` to `damages`; nothing for `None`. `offset` is that of their batch.
fn add_stretch(
    offset: u64,
    region: u64,
    stretch: Option<Stretch>,
    damages: &mut Vec<Damage>,
) -> Result<()>
    ensures ok { OnOk result (damages.new.items ≡ damages.old.items ++ said_of_stretch offset region stretch) }
    ensures memory { IfErr result (λ e. e ≡ Error.Memory) }
{
    let Some(Stretch { first, last, loss }) = stretch else {
        return Ok(());
    };
    let kind = DamageKind::Entries {
        region,
        first,
        last,
        loss,
    };
    damages.push(Damage { offset, kind })?;
    Ok(())
}

/// States what the numbers of a scan are once it has visited all that a walk through a part meets: how many batches were met, which is the
/// first byte at which none can be read, and how many bytes of the file stand from the damage on from which no header leads on. This is a
/// law: it computes nothing.
pub fn scans_sum_up()
    ensures { (part : Part) (met : List (ℕ × Met)) (old new : FileScan) → old.batches < 2 ^ 64
        → AreVisited IsScanned part old met new → IsSummedUp part met old new }
{}
