//! Laws of the places of entries, and of where their bytes end in the block at that place.

ghost use Rattle.std.specs.Prelude.{ℕ, List, ◌∷◌, []};
ghost use Rattle.raft_base.specs.declared.pipe_log.FileBlockHandle.{FileBlockHandle};
ghost use Rattle.raft_base.specs.declared.pipe_log.LogQueue.{LogQueue};
ghost use Rattle.raft_base.specs.declared.pipe_log.Version.{Version};
ghost use Rattle.raft_records.specs.FilePart.{Part};
ghost use Rattle.raft_records.specs.Item.{Item};
ghost use Rattle.raft_records.specs.LogBatch.{IsBatchOf};
ghost use Rattle.raft_history.specs.Batches.{Event};
ghost use Rattle.raft_files.specs.Disk.{NumberedBytes};
ghost use Rattle.raft_replay.specs.WrittenParts.{written_event};
ghost use Rattle.raft_recover.specs.Files.{FilesHold};
ghost use Rattle.raft_engine_prefixes.specs.Done.{AreRisingFrom, numbers};
ghost use Rattle.raft_engine_prefixes.specs.EntryPlaces.{EntriesEndWithin, EntriesOfTablesStand, LeftFilesEndWithin, PlacesStand};

/// States that the bytes of the entries of a batch that an engine writes end within their block. This is a
/// law: it computes nothing.
pub fn written_entries_end_within()
    ensures { (part : Part) (handle : FileBlockHandle) (items : List Item) (entry_bytes : List ℕ) → IsBatchOf items entry_bytes
        → EntriesEndWithin (written_event part handle items entry_bytes ∷ []) }
{}

/// States that files whose numbers rise have bytes at the place of each entry of the batches that they hold.
/// This is a law: it computes nothing.
pub fn places_stand()
    ensures { (queue : LogQueue) (version : Version) (n : ℕ) (files : List NumberedBytes) (h : List Event)
        → AreRisingFrom n (numbers files) → FilesHold queue version files h → PlacesStand queue files h }
{}

/// States that each entry of the tables that are read of both queues has its bytes in their files, if the
/// entries of all batches end within their blocks. This is a law: it computes nothing.
pub fn entries_of_tables_stand()
    ensures { EntriesOfTablesStand }
{}

/// States that the entries of the batches that are read of what a crash leaves of a queue end within their
/// blocks, if those of all batches of the queue do. This is a law: it computes nothing.
pub fn left_batches_end_within()
    ensures { LeftFilesEndWithin }
{}
