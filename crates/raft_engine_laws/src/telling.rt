//! Laws of what the rewrite queue is told: what steps of the append queue take away, in batches of commands
//! and deletions. Until then these steps are *untold*.

ghost use Rattle.std.specs.Prelude.{◌≡◌, ℕ, List, [], ◌∷◌, ◌++◌, map};
ghost use Rattle.std.specs.FinMap as finite;
ghost use Rattle.raft_base.specs.declared.compression_type.CompressionType.{CompressionType};
ghost use Rattle.raft_base.specs.declared.entry_index.EntryIndex.{EntryIndex};
ghost use Rattle.raft_base.specs.declared.pipe_log.FileBlockHandle.{FileBlockHandle};
ghost use Rattle.raft_base.specs.declared.pipe_log.FileId.{FileId};
ghost use Rattle.raft_base.specs.declared.pipe_log.LogQueue.TheVariants.{Rewrite};
ghost use Rattle.raft_records.specs.Item.{Item};
ghost use Rattle.raft_records.specs.ItemBatch.{placed_item};
ghost use Rattle.raft_table.specs.Steps.{Step, Run, table_of};
ghost use Rattle.raft_table.specs.TableEntries.{below};
ghost use Rattle.raft_history.specs.Batches.{Event};
ghost use Rattle.raft_history.specs.Histories.{IsOneReading, AreInFile, HaveStatus};
ghost use Rattle.raft_history.specs.RegionSteps.{RegionStep, Tables, steps_on, steps_of_items};
ghost use Rattle.raft_engine_laws.specs.Groups.{HasNoMarker};
ghost use Rattle.raft_engine_laws.specs.KeptTables.{AreKept};
ghost use Rattle.raft_engine_laws.specs.NextBatches.{IsRewrittenNext};
ghost use Rattle.raft_engine_laws.specs.Speaking.{unspoken};
ghost use Rattle.raft_engine_laws.specs.Telling.{AreRemovals, SayTheSame, SayEnough, TakeAway, told_items, taking_items, taking_steps};

/// States that the items by which a batch is told to the rewrite queue take away what its own items take
/// away: a run is told as a truncation at its first index. They are commands and deletions, which put
/// nothing, and may stand in a batch of any file, without a group marker. This is a law: it computes nothing.
pub fn told_items_take_away_the_same()
    ensures same { (items : List Item) (r : ℕ)
        → SayTheSame (steps_on r (steps_of_items (told_items items))) (steps_on r (steps_of_items items)) }
    ensures away { (items : List Item) → TakeAway (told_items items) }
    ensures removals { (items : List Item) → TakeAway items
        → (r : ℕ) → AreRemovals (steps_on r (steps_of_items items)) }
    ensures in_file { (file : FileId) (items : List Item) → TakeAway items → AreInFile file items }
    ensures status { (items : List Item) → TakeAway items → HaveStatus Rewrite items }
    ensures no_marker { (file : FileId) (items : List Item) → TakeAway items
        → HasNoMarker record { items = items; file = file } }
{}

/// States that of items that are written to tables only those have to be told that take something away from
/// these: what is told of them takes away what those of their steps do that take something away. It is the
/// same wherever the items are placed. This is a law: it computes nothing.
pub fn items_that_take_nothing_away_need_no_telling()
    ensures same { (tables : Tables) (items : List Item) (r : ℕ)
        → SayTheSame (steps_on r (steps_of_items (told_items (taking_items tables items)))) (steps_on r (taking_steps tables (steps_of_items items))) }
    ensures placed { (tables : Tables) (place : FileBlockHandle) (compression : CompressionType) (items : List Item)
        → told_items (taking_items tables (map (placed_item place compression) items)) ≡ told_items (taking_items tables items) }
{}

/// States that other steps may stand for the untold ones if they say the same, region by region: they take
/// away the same. Lists of steps that say the same still do when they are put one after the other. This is a
/// law: it computes nothing.
pub fn what_says_the_same_is_as_untold()
    ensures kept { (content : EntryIndex → List ℕ) (append rewrite : List Event)
        (untold other : List RegionStep) (tables : Tables)
        → AreKept content append rewrite untold tables
        → ((r : ℕ) → SayTheSame (steps_on r other) (steps_on r untold))
        → AreKept content append rewrite other tables }
    ensures joined { (a b c d : List Step) → SayTheSame a b → SayTheSame c d
        → SayTheSame (a ++ c) (b ++ d) }
{}

/// States that no step is untold once a batch without a group marker has told the rewrite queue, in any
/// order, what the untold steps take away. If it told some of it, the others are still untold. This is a law:
/// it computes nothing.
pub fn told_steps_are_no_longer_untold()
    ensures all { (content : EntryIndex → List ℕ) (append rewrite : List Event)
        (untold : List RegionStep) (tables : Tables) (e : Event)
        → AreKept content append rewrite untold tables → IsRewrittenNext rewrite e → HasNoMarker e
        → ((r : ℕ) → AreRemovals (steps_on r (steps_of_items e.items)))
        → ((r : ℕ) → SayTheSame (steps_on r (steps_of_items e.items)) (steps_on r untold))
        → AreKept content append (rewrite ++ e ∷ []) [] tables }
    ensures some { (content : EntryIndex → List ℕ) (append rewrite : List Event)
        (untold : List RegionStep) (tables : Tables) (e : Event)
        → AreKept content append rewrite untold tables → IsRewrittenNext rewrite e → HasNoMarker e
        → (others : List RegionStep) → ((r : ℕ) → AreRemovals (steps_on r (steps_of_items e.items)))
        → ((r : ℕ) → SayTheSame (steps_on r (steps_of_items e.items) ++ steps_on r others) (steps_on r untold))
        → AreKept content append (rewrite ++ e ∷ []) others tables }
{}

/// States that steps that take away nothing of what the rewrite files give needn't be told. One such step is
/// a run that begins after all rewritten entries of its region that are live. This is a law: it computes
/// nothing.
pub fn steps_that_take_nothing_away_need_no_telling()
    ensures kept { (content : EntryIndex → List ℕ) (append rewrite : List Event)
        (untold fewer : List RegionStep) (tables rewritten : Tables)
        → AreKept content append rewrite untold tables
        → IsOneReading Rewrite rewrite rewritten []
        → ((r : ℕ) → SayEnough (steps_on r untold) (steps_on r fewer) (table_of r (finite.get rewritten r)).entries)
        → AreKept content append rewrite fewer tables }
    ensures run { (untold : List Step) (e : EntryIndex) (run es : List EntryIndex)
        → below e.index (unspoken untold es) ≡ unspoken untold es
        → SayEnough (untold ++ Run (e ∷ run) ∷ []) untold es }
{}
