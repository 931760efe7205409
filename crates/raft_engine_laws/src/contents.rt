//! A law on the bytes of entries. Other laws are about any function from entries to bytes, `content`; this
//! one says that the bytes in the files are such a function.

ghost use Rattle.std.specs.Prelude.{ℕ, ◌+◌, List, ◌∷◌, ◌++◌, length, drop, Option};
ghost use Rattle.std.specs.List.{concat};
ghost use Rattle.raft_base.specs.declared.entry_index.EntryIndex.{EntryIndex};
ghost use Rattle.raft_records.specs.Entries.{with_lengths};
ghost use Rattle.raft_records.specs.Header.{IsEntryBlockOf};
ghost use Rattle.raft_records.specs.Item.{Item};
ghost use Rattle.raft_records.specs.ItemBatch.{with_offsets_from};
ghost use Rattle.raft_records.specs.LogBatch.{entry_block, log_batch_bytes};
ghost use Rattle.raft_engine_laws.specs.Contents.{HaveBytes};

/// States that the bytes of entries are read where they were written. If a batch with items was written after
/// other bytes, its entry bytes are read at the place of its entries, whatever bytes follow; and among these
/// each entry that was added has its byte string. This is a law: it computes nothing.
pub fn written_entries_are_read()
    ensures block { (signature : Option ℕ) (item : Item) (items : List Item) (es old rest : List ℕ)
        → IsEntryBlockOf (length (entry_block es))
        (drop (length old + 16) (old ++ (log_batch_bytes signature (item ∷ items) es ++ rest))) es }
    ensures entries { (es : List EntryIndex) (strings : List (List ℕ)) (before behind : List ℕ)
        → HaveBytes (before ++ (concat strings ++ behind))
        (with_offsets_from (length before) (with_lengths es strings)) strings }
{}
