//! Laws of atomic groups in the rewrite files: batches that take effect together, from one with a `Begin` to
//! one with the `End`. An *effect* is a whole group, or a batch without a group marker. Two effects are
//! *apart* if they don't overlap or name no common region.

ghost use Rattle.std.specs.Prelude.{◌≡◌, ◌⊎◌, ℕ, List, [], ◌∷◌, ◌++◌, flat_map};
ghost use Rattle.std.specs.List.{AllByRecursion};
ghost use Rattle.raft_base.specs.declared.entry_index.EntryIndex.{EntryIndex};
ghost use Rattle.raft_records.specs.declared.atomic_group.AtomicGroupStatus.TheVariants.{Begin, Middle, End};
ghost use Rattle.raft_history.specs.Batches.{Event, batches};
ghost use Rattle.raft_history.specs.Effects.{steps_of, whole_steps};
ghost use Rattle.raft_history.specs.Histories.{Apart};
ghost use Rattle.raft_history.specs.RegionSteps.{RegionStep, Tables, steps_on, steps_of_items};
ghost use Rattle.raft_engine_laws.specs.Groups.{HasNoMarker, LeavesOpen, IsMarked, IsWholeGroup, EndNoOlderGroup};
ghost use Rattle.raft_engine_laws.specs.GroupsInRows.{AreGroupsInRows};
ghost use Rattle.raft_engine_laws.specs.KeptTables.{AreKept};
ghost use Rattle.raft_engine_laws.specs.NextBatches.{IsRewrittenNext};
ghost use Rattle.raft_engine_laws.specs.Crashes.{Deed, written, AreInFileOf, FilesEndNoOlderGroup, IsLeft};

/// States that an engine's tables are still kept after a batch of the rewrite queue that begins a group or
/// goes on with one: such a batch has no effect yet. This is a law: it computes nothing.
pub fn open_groups_change_nothing()
    ensures { (content : EntryIndex → List ℕ) (append rewrite : List Event)
        (untold : List RegionStep) (tables : Tables) (e : Event)
        → AreKept content append rewrite untold tables → IsRewrittenNext rewrite e → LeavesOpen e
        → AreKept content append (rewrite ++ e ∷ []) untold tables }
{}

/// States that the effects of a history stay apart with one more batch without a group marker, with one that
/// leaves its group open, and with a whole group whose batches follow one another. It also says which steps
/// each of these adds. This is a law: it computes nothing.
pub fn effects_stay_apart_with_more_batches()
    ensures alone { (h : List Event) (e : Event) → HasNoMarker e → Apart h → Apart (h ++ e ∷ []) }
    ensures alone_steps { (h : List Event) (e : Event) → HasNoMarker e
        → (r : ℕ) → steps_of r (batches (h ++ e ∷ [])) ≡ steps_of r (batches h) ++ steps_on r (steps_of_items e.items) }
    ensures open { (h : List Event) (e : Event) → LeavesOpen e → Apart h → Apart (h ++ e ∷ []) }
    ensures open_steps { (h : List Event) (e : Event) → LeavesOpen e
        → (r : ℕ) → steps_of r (batches (h ++ e ∷ [])) ≡ steps_of r (batches h) }
    ensures whole { (h middles : List Event) (g : ℕ) (begin end : Event) → IsWholeGroup g begin middles end
        → Apart h → Apart (h ++ begin ∷ (middles ++ end ∷ [])) }
    ensures whole_steps { (h middles : List Event) (g : ℕ) (begin end : Event) → IsWholeGroup g begin middles end
        → (r : ℕ) → steps_of r (batches (h ++ begin ∷ (middles ++ end ∷ [])))
        ≡ steps_of r (batches h) ++ whole_steps r (flat_map (λ e. steps_of_items e.items) (begin ∷ (middles ++ end ∷ []))) begin.file.seq end.file.seq }
{}

/// States which lists of batches end no group that began before them: the empty one, a batch without a group
/// marker, one that leaves its group open, a whole group whose batches follow one another, and two such lists
/// one after the other. So the files of an engine that keeps each group in one file end no group of an older
/// file. This is a law: it computes nothing.
pub fn groups_in_one_file_end_no_older_group()
    ensures none { EndNoOlderGroup [] }
    ensures alone { (e : Event) → HasNoMarker e → EndNoOlderGroup (e ∷ []) }
    ensures open { (e : Event) → LeavesOpen e → EndNoOlderGroup (e ∷ []) }
    ensures whole { (g : ℕ) (begin : Event) (middles : List Event) (end : Event)
        → IsWholeGroup g begin middles end → EndNoOlderGroup (begin ∷ (middles ++ end ∷ [])) }
    ensures both { (h k : List Event) → EndNoOlderGroup h → EndNoOlderGroup k
        → EndNoOlderGroup (h ++ k) }
{}

/// States what holds of batches if each group is in a *row*, that is in batches that follow one another in
/// one file. Their effects are apart, and wherever deleted files end, the files that stay end no group of the
/// deleted ones. The batches that a crash leaves have their groups in rows again. So have the batches with
/// one more that has no group marker, that begins a group, or that is a Middle or the End of the group of the
/// last row. This is a law: it computes nothing.
pub fn groups_stay_in_rows()
    ensures none { AreGroupsInRows [] }
    ensures apart { (h : List Event) → AreGroupsInRows h → Apart h }
    ensures files { (h : List Event) → AreGroupsInRows h → FilesEndNoOlderGroup h }
    ensures left { (deeds : List Deed) (standing h : List Event) → AreGroupsInRows (written deeds)
        → IsLeft deeds standing h → AreGroupsInRows h }
    ensures alone { (h : List Event) (e : Event) → HasNoMarker e → AreGroupsInRows h → AreGroupsInRows (h ++ e ∷ []) }
    ensures begun { (h : List Event) (g : ℕ) (e : Event) → IsMarked g Begin e
        → AreGroupsInRows h → AreGroupsInRows (h ++ e ∷ []) }
    ensures goes_on { (h : List Event) (g : ℕ) (begin : Event) (middles : List Event) (e : Event)
        → AreGroupsInRows (h ++ begin ∷ middles) → IsMarked g Begin begin → AllByRecursion (IsMarked g Middle) middles
        → AreInFileOf e.file.seq (begin ∷ middles) → IsMarked g Middle e ⊎ IsMarked g End e
        → AreGroupsInRows ((h ++ begin ∷ middles) ++ e ∷ []) }
{}
