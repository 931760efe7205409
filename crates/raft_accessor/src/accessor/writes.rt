//! Items written to the tables of their regions.

ghost use Rattle.std.specs.Prelude.{◌≡◌, ◌≢◌, ◌⊎◌, List, ◌++◌, map, OnOk, IfErr};
ghost use Rattle.raft_accessor.specs.Common.{Drains, Yields, IsFinite, LogQueue, Append, Rewrite, LogItem, Error, Item, item_of, Accessor, IsWritten, AreAccepted, AreAcceptedOncePlaced, AreRefusedOncePlaced, IsAppendCheckFault, Appending};
ghost use Rattle.raft_accessor.specs.Common.{Replaying, Rewriting, AreWritten, AreItemsRefused, writing_shown};

use crate::accessor::{MemTableAccessor, slot_of};
use crate::append_check::AppendCheck;
use crate::item_writes::Writing;
use raft_base::{Error, FileSeq, LogQueue, Result};
use raft_records::LogItem;

impl MemTableAccessor {
    /// Checks that [`apply_append_writes`](MemTableAccessor::apply_append_writes) would accept these items,
    /// in order, once their entries have a place and their key values a file in the append queue, whatever
    /// place and file. It looks at indexes and values, walks over the items once, and changes nothing.
    ///
    /// # Errors
    ///
    /// `Corruption` if it would refuse an item; the text names the region and the reason and, for entries,
    /// the index at which they begin. `Memory`.
    pub fn check_append_writes(&self, items: &[LogItem]) -> Result<()>
        ensures ok { OnOk result (AreAcceptedOncePlaced self.now.tables (map item_of items.now)) }
        ensures refused { IfErr result (λ e. e ≢ Error.Memory
            → AreRefusedOncePlaced self.now.tables (map item_of items.now)) }
        ensures fault { IfErr result (IsAppendCheckFault self.now.tables (map item_of items.now)) }
    {
        let mut check = AppendCheck::new(*self.cleaned.allocator());
        for item in items {
            check.check_next_item(item, self.get(item.raft_group_id))?;
        }
        Ok(())
    }

    /// Writes `items`, new ones of the append queue, to the tables of their regions, in order. They must come
    /// to an end.
    ///
    /// # Errors
    ///
    /// Those of [`RegionTables::append_item`] for the first item that is refused. The items before it are
    /// written then; it and those after it are not.
    pub fn apply_append_writes<I: IntoIterator<Item = LogItem>>(&mut self, items: I) -> Result<()>
        requires { (it : I.IntoIter) → I.into_iter_gives items it
            → I.IntoIter.can_next it × IsFinite (I.IntoIter.remaining it) }
        ensures ok { OnOk result ((it : I.IntoIter) × (xs : List LogItem)
            × I.into_iter_gives items it × Drains I.IntoIter.next_gives it xs
            × AreWritten Appending (map item_of xs) self.old self.new) }
        ensures refused { IfErr result (λ e. (it : I.IntoIter) × (xs : List LogItem)
            × (u : I.IntoIter) × I.into_iter_gives items it × Yields I.IntoIter.next_gives it xs u
            × AreItemsRefused Appending (map item_of xs) self.old self.new e) }
    {
        self.write_items(Writing::Appending, items)
    }

    /// Writes `items`, which were read from the append queue, to the tables of their regions, in order. They
    /// must come to an end.
    ///
    /// # Errors
    ///
    /// Those of [`RegionTables::replay_item`] for the first item that is refused. The items before it are
    /// written then; it and those after it are not.
    pub fn replay_append_writes<I: IntoIterator<Item = LogItem>>(&mut self, items: I) -> Result<()>
        requires { (it : I.IntoIter) → I.into_iter_gives items it
            → I.IntoIter.can_next it × IsFinite (I.IntoIter.remaining it) }
        ensures ok { OnOk result ((it : I.IntoIter) × (xs : List LogItem)
            × I.into_iter_gives items it × Drains I.IntoIter.next_gives it xs
            × AreWritten (Replaying Append) (map item_of xs) self.old self.new) }
        ensures refused { IfErr result (λ e. (it : I.IntoIter) × (xs : List LogItem)
            × (u : I.IntoIter) × I.into_iter_gives items it × Yields I.IntoIter.next_gives it xs u
            × AreItemsRefused (Replaying Append) (map item_of xs) self.old self.new e) }
    {
        self.write_items(Writing::Replaying(LogQueue::Append), items)
    }

    /// Writes `items`, which were read from the rewrite queue, to the tables of their regions, in order. They
    /// must come to an end.
    ///
    /// # Errors
    ///
    /// Those of [`RegionTables::replay_item`] for the first item that is refused. The items before it are
    /// written then; it and those after it are not.
    pub fn replay_rewrite_writes<I: IntoIterator<Item = LogItem>>(&mut self, items: I) -> Result<()>
        requires { (it : I.IntoIter) → I.into_iter_gives items it
            → I.IntoIter.can_next it × IsFinite (I.IntoIter.remaining it) }
        ensures ok { OnOk result ((it : I.IntoIter) × (xs : List LogItem)
            × I.into_iter_gives items it × Drains I.IntoIter.next_gives it xs
            × AreWritten (Replaying Rewrite) (map item_of xs) self.old self.new) }
        ensures refused { IfErr result (λ e. (it : I.IntoIter) × (xs : List LogItem)
            × (u : I.IntoIter) × I.into_iter_gives items it × Yields I.IntoIter.next_gives it xs u
            × AreItemsRefused (Replaying Rewrite) (map item_of xs) self.old self.new e) }
    {
        self.write_items(Writing::Replaying(LogQueue::Rewrite), items)
    }

    /// Writes `items` to the tables of their regions, in order, as items that were rewritten to the file
    /// numbered `new_file` of the rewrite queue. They must come to an end. `watermark` limits what moves.
    /// With one, entries move whose file is numbered at or below it; without one, those that are rewritten
    /// already. A key value in an append file moves only with a watermark at or above that file, a rewritten
    /// one always.
    ///
    /// # Errors
    ///
    /// Those of [`RegionTables::rewrite_item`] for the first item that is refused. The items before it are
    /// written then; it and those after it are not.
    pub fn apply_rewrite_writes<I: IntoIterator<Item = LogItem>>(
        &mut self,
        items: I,
        watermark: Option<FileSeq>,
        new_file: FileSeq,
    ) -> Result<()>
        requires { (it : I.IntoIter) → I.into_iter_gives items it
            → I.IntoIter.can_next it × IsFinite (I.IntoIter.remaining it) }
        ensures ok { OnOk result ((it : I.IntoIter) × (xs : List LogItem)
            × I.into_iter_gives items it × Drains I.IntoIter.next_gives it xs
            × AreWritten (Rewriting watermark new_file) (map item_of xs) self.old self.new) }
        ensures refused { IfErr result (λ e. (it : I.IntoIter) × (xs : List LogItem)
            × (u : I.IntoIter) × I.into_iter_gives items it × Yields I.IntoIter.next_gives it xs u
            × AreItemsRefused (Rewriting watermark new_file) (map item_of xs) self.old self.new e) }
    {
        self.write_items(Writing::Rewriting(watermark, new_file), items)
    }

    /// Writes `items` to the tables of their regions, in order, as `how` says. They must come to an end. This
    /// is the loop of the four calls above.
    ///
    /// # Errors
    ///
    /// Those of [`write_item`](MemTableAccessor::write_item) for the first item that is refused. The items
    /// before it are written then; it and those after it are not.
    #[inline(always)]
    fn write_items<I: IntoIterator<Item = LogItem>>(&mut self, how: Writing, items: I) -> Result<()>
        requires { (it : I.IntoIter) → I.into_iter_gives items it
            → I.IntoIter.can_next it × IsFinite (I.IntoIter.remaining it) }
        ensures ok { OnOk result ((it : I.IntoIter) × (xs : List LogItem)
            × I.into_iter_gives items it × Drains I.IntoIter.next_gives it xs
            × AreWritten (writing_shown how) (map item_of xs) self.old self.new) }
        ensures refused { IfErr result (λ e. (it : I.IntoIter) × (xs : List LogItem)
            × (u : I.IntoIter) × I.into_iter_gives items it × Yields I.IntoIter.next_gives it xs u
            × AreItemsRefused (writing_shown how) (map item_of xs) self.old self.new e) }
    {
        for item in items {
            self.write_item(how, item)?;
        }
        Ok(())
    }

    /// Writes one item to the table of its region, as `how` says.
    ///
    /// # Errors
    ///
    /// Those of [`RegionTables::append_item`], [`RegionTables::replay_item`] or
    /// [`RegionTables::rewrite_item`]. Tables, counts and cleaned regions are unchanged then.
    #[inline(always)]
    fn write_item(&mut self, how: Writing, item: LogItem) -> Result<()>
        ensures { IsWritten (writing_shown how) (item_of item) result self.old self.new }
    {
        let id = item.raft_group_id;
        self.slots[slot_of(id)].write_item(how, item, &mut self.stats, &mut self.cleaned)
    }
}

/// States that items that the tables accept as new ones are refused only for lack of memory (`Memory`) or of
/// room in the live counts (`Full`). This is a law: it computes nothing.
pub fn accepted_items_lack_room_alone()
    ensures { (items rest : List Item) (old new : Accessor) (e : Error)
        → AreAccepted old.tables (items ++ rest) → AreItemsRefused Appending items old new e
        → (e ≡ Error.Memory) ⊎ (e ≡ Error.Full) }
{}
