//! Laws of log batches: how what was written is read. Each is a function with an empty body, whose contract
//! is the law.

ghost use Rattle.std.specs.Prelude.{◌≡◌, ◌≢◌, ◌↔◌, ℕ, ◌+◌, ◌%◌, ◌^◌, ◌<◌, List, [], ◌++◌, map, drop, Option, Some};
ghost use Rattle.raft_records.specs.Common.{V2, HasNoFront, HasOneFront, signature_in, FileBlockHandle, CompressionType, EntryIndex, IsConsecutive, Command, Part, IsNext, WrittenBatchStands, Item, bare, Pair, bare_entry, bare_pair};
ghost use Rattle.raft_records.specs.Common.{entries, command, pair, AreInBytes, placed_item, IsItemBatch, IsBatchOf, IsLogBatch, IsReadable, encoded_length, entry_place, log_batch_bytes, IsHeader, IsEntryBlockOf, AreInRange};
ghost use Rattle.raft_records.specs.Common.{IsContentInRange, IsFramed, IsFramedWith, LogBatchIsSpelled, IsCommand, IsEntries, IsItem, IsKeyValue, Tile, IsWritablePair, command_bytes, entries_bytes, pair_bytes, ItemIsSpelled};
ghost use Rattle.raft_records.specs.Common.{ItemBatchIsSpelled, uncompressed};

/// States that items are read as they were written. The bytes of an item stand for it, and no item's bytes
/// are a prefix of those of another item, so an item is read back whatever bytes follow it. The bytes of some
/// items with a signed checksum are an item batch of these items. No bytes are an item batch in two ways:
/// with other items, or with other bytes left between the last item and the checksum.
#[tactic(auto, using(crate::proofs::WrittenLemmas::item_spelled, crate::proofs::WrittenLemmas::batch_spelled))]
pub fn items_are_read_again()
    ensures item { ItemIsSpelled }
    ensures one_front { (s : ℕ) → HasOneFront (IsItem s) }
    ensures item_batch { ItemBatchIsSpelled }
    ensures one_batch { (bytes rest rest' : List ℕ) (signature : Option ℕ)
        (items items' : List Item) →
        IsItemBatch bytes signature items rest → IsItemBatch bytes signature items' rest' →
        (items ≡ items') × (rest ≡ rest') }
{}

/// States that each kind of an item's content is read as it was written: commands; key values, except for
/// their file; and entries, except for their place, whatever entry bytes come before them. The bytes of a
/// content stand for it, and are no prefix of those of another content of its kind.
#[tactic(auto, using(crate::proofs::WrittenLemmas::command_spelled, crate::proofs::WrittenLemmas::entries_spelled))]
pub fn contents_are_read_again()
    ensures command { (c : Command) → IsContentInRange (command c) → IsCommand (command_bytes c) c }
    ensures one_command { HasOneFront IsCommand }
    ensures key_value { (p : Pair) → IsWritablePair p → IsContentInRange (pair p) →
        IsKeyValue (pair_bytes p) (bare_pair p) }
    ensures one_key_value { HasOneFront IsKeyValue }
    ensures entries { (s : ℕ) (es : List EntryIndex) → IsConsecutive es → Tile s es →
        IsContentInRange (entries es) → IsEntries s (entries_bytes es) (map bare_entry es) }
    ensures one_entries { (s : ℕ) → HasOneFront (IsEntries s) }
{}

/// States that an item batch of one file of version 2 isn't an item batch of another file of version 2,
/// unless the low 32 bits of the file numbers are the same. If they are the same, it is an item batch of the
/// other file too, with the same items.
pub fn batches_belong_to_one_file()
    ensures other_file { (bytes rest rest' : List ℕ) (seq seq' : ℕ) (items items' : List Item) →
        IsItemBatch bytes (signature_in V2 seq) items rest →
        IsItemBatch bytes (signature_in V2 seq') items' rest' → seq % 2 ^ 32 ≡ seq' % 2 ^ 32 }
    ensures same_bits { (bytes rest : List ℕ) (seq seq' : ℕ) (items : List Item) →
        seq % 2 ^ 32 ≡ seq' % 2 ^ 32 → IsItemBatch bytes (signature_in V2 seq) items rest →
        IsItemBatch bytes (signature_in V2 seq') items rest }
{}

/// States that log batches are read as they were written. The bytes of a log batch with a signed checksum are
/// a log batch of its items and entry bytes. Bytes are a log batch exactly if they consist of a header, an
/// entry block and an item batch. Each of these can be read in one way only, so the bytes have one list of
/// items and one string of entry bytes. Bytes are a readable batch exactly if they have a header, and an item
/// batch from the offset that the header names to their end: the entry block isn't looked at.
#[tactic(auto, using(crate::proofs::FrameLemmas::log_batch_spelled, crate::proofs::FrameLemmas::one_entry_block))]
pub fn log_batches_are_read_again()
    ensures written { LogBatchIsSpelled }
    ensures sections { (bytes : List ℕ) (signature : Option ℕ) (items : List Item)
        (entry_bytes : List ℕ) →
        IsLogBatch bytes signature items entry_bytes
        ↔ IsFramedWith bytes signature items entry_bytes }
    ensures readable { (bytes : List ℕ) (signature : Option ℕ) (items : List Item) →
        IsReadable bytes signature items ↔ ((offset : ℕ) × IsFramed bytes signature items offset) }
    ensures one_header { HasOneFront IsHeader }
    ensures one_entry_block { (len : ℕ) (bytes entry_bytes entry_bytes' : List ℕ) →
        IsEntryBlockOf len bytes entry_bytes → IsEntryBlockOf len bytes entry_bytes'
        → entry_bytes ≡ entry_bytes' }
    ensures one_batch { (bytes entry_bytes entry_bytes' : List ℕ) (signature : Option ℕ)
        (items items' : List Item) →
        IsLogBatch bytes signature items entry_bytes
        → IsLogBatch bytes signature items' entry_bytes'
        → (items ≡ items') × (entry_bytes ≡ entry_bytes') }
{}

/// States that a log batch that was signed for one file of version 2 is refused in another file of version 2
/// exactly if the low 32 bits of the file numbers differ. If they are the same, it is read there with the
/// same items.
pub fn log_batches_belong_to_one_file()
    ensures other_file { (bytes : List ℕ) (seq seq' : ℕ) (items items' : List Item) →
        IsReadable bytes (signature_in V2 seq) items
        → IsReadable bytes (signature_in V2 seq') items'
        → seq % 2 ^ 32 ≡ seq' % 2 ^ 32 }
    ensures same_bits { (bytes entry_bytes : List ℕ) (seq seq' : ℕ) (items : List Item) →
        seq % 2 ^ 32 ≡ seq' % 2 ^ 32 → IsLogBatch bytes (signature_in V2 seq) items entry_bytes →
        IsLogBatch bytes (signature_in V2 seq') items entry_bytes }
{}

/// States that [`next_batch`](crate::next_batch) reads a written batch back. Let a part of a file have, at
/// the offset to which a batch with items was written, the bytes of the batch, signed for that file. Then
/// `next_batch` doesn't refuse them, returns exactly the items that `finish_write` leaves in the batch, and
/// says that the next batch begins where the bytes end. The other premises hold for every batch that was
/// encoded, as [`LogBatch::is_read_again`](crate::LogBatch::is_read_again) states.
#[tactic(auto, using(crate::proofs::PartLemmas::written_stands, crate::proofs::PartLemmas::written_next, crate::proofs::PartLemmas::written_accepted))]
pub fn written_batches_are_next()
    ensures stands { WrittenBatchStands }
    ensures next { (part : Part) (at : ℕ) (handle : FileBlockHandle) (items : List Item)
        (entry_bytes rest : List ℕ) (answer : Option (List Item × ℕ)) →
        IsBatchOf items entry_bytes → AreInRange items → AreInBytes items → items ≢ [] →
        encoded_length items entry_bytes < 2 ^ 56 →
        handle.id ≡ part.id → handle.offset ≡ part.offset + at →
        drop at part.bytes
        ≡ log_batch_bytes (signature_in part.version part.id.seq) items entry_bytes ++ rest →
        IsNext part at answer →
        answer ≡ Some (
          map (placed_item (entry_place handle entry_bytes) uncompressed) items,
          at + encoded_length items entry_bytes,
        ) }
    ensures accepted { (part : Part) (at : ℕ) (items : List Item) (entry_bytes rest : List ℕ) →
        IsBatchOf items entry_bytes → AreInRange items → items ≢ [] →
        encoded_length items entry_bytes < 2 ^ 56 →
        drop at part.bytes
        ≡ log_batch_bytes (signature_in part.version part.id.seq) items entry_bytes ++ rest →
        HasNoFront (λ bytes. IsReadable bytes (signature_in part.version part.id.seq))
        (drop at part.bytes) → ⊥ }
{}

/// States that the items that are read of a written batch are those of the batch itself, once `finish_write`
/// has set their places.
#[tactic(auto, using(crate::proofs::RangeLemmas::items_read))]
pub fn placed_items_are_read()
    ensures { (handle : FileBlockHandle) (compression : CompressionType) (items : List Item) →
        AreInBytes items →
        map (placed_item handle compression) (map bare items)
        ≡ map (placed_item handle compression) items }
{}
