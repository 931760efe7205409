//! Laws of contexts, which hold what was read of a history: tables, region marks, waiting atomic groups,
//! cleaned regions and files.
//!
//! A context *stands for* a history if its files, waiting groups and cleaned regions are those of the history
//! and, in the append queue, its tables and region marks stand for the history's steps; it stands for it
//! *exactly* if they do so in the rewrite queue too.
#![tactic(auto, using(crate::proofs::Laws::context_laws))]

ghost use Rattle.std.specs.Prelude.{◌≡◌, ◌⊎◌, ◌↔◌, ◌+◌, ◌≤◌, ℕ, List, [], ◌∷◌, ◌++◌, Some, None, true, false};
ghost use Rattle.raft_history.specs.Common.{AllByRecursion, LogQueue, Rewrite, RegionStep, Tables, Event, batches, Sound, Apart, AreInFile, HaveStatus, FilesFrom, IsStepOfQueue, IsOneReading, WaitingGroups, groups_in, joined_groups};
ghost use Rattle.raft_history.specs.Common.{whole_groups, waiting_records, records_in_wholes, MarkedRegions, region_steps_of_wholes, Context, StandsFor, IsExactFor, Suits, files_of, follows, new_context, merged_context, taken_in};
ghost use Rattle.raft_history.specs.Common.{merged_with, AreMerged, AreRegionsRefused, kept_of, kept_by, IsAtMost};

/// States that a new context stands exactly for the empty history. This is a law: it computes nothing.
pub fn new_contexts_stand_exactly()
    ensures { IsExactFor new_context [] }
{}

/// States what a context stands for after one more batch. If it stood for a history, it then stands for the
/// history with the batch at its end; exactly, if it did so before. The batch is refused only if the history
/// with it isn't sound. If the history with it is sound, then the batch is of the context's queue, its file
/// may follow the last one, and its items are allowed in that file. This is a law: it computes nothing.
pub fn contexts_stand_for_batches_taken_in()
    ensures stands { (c d : Context) (h : List Event) (e : Event) → Suits e.file.queue c.files
        → follows c.files (files_of (e ∷ [])) ≡ true → AreInFile e.file e.items
        → HaveStatus e.file.queue e.items → StandsFor c h → taken_in c e ≡ Some d
        → StandsFor d (h ++ e ∷ []) }
    ensures exact { (c d : Context) (h : List Event) (e : Event) → Suits e.file.queue c.files
        → follows c.files (files_of (e ∷ [])) ≡ true → AreInFile e.file e.items
        → HaveStatus e.file.queue e.items → IsExactFor c h → taken_in c e ≡ Some d
        → IsExactFor d (h ++ e ∷ []) }
    ensures refused { (c : Context) (h : List Event) (e : Event) → Suits e.file.queue c.files
        → follows c.files (files_of (e ∷ [])) ≡ true → AreInFile e.file e.items
        → HaveStatus e.file.queue e.items → StandsFor c h → taken_in c e ≡ None
        → Sound (h ++ e ∷ []) → ⊥ }
    ensures next { (c : Context) (h : List Event) (e : Event) → StandsFor c h → Sound (h ++ e ∷ [])
        → Suits e.file.queue c.files × (follows c.files (files_of (e ∷ [])) ≡ true)
        × AreInFile e.file e.items × HaveStatus e.file.queue e.items }
{}

/// States what two merged contexts stand for. If they stood for two neighboring histories, the result stands
/// for both, one after the other; exactly, if both did and the effects of the whole are apart. The merge is
/// refused only if the whole history isn't sound; in the rewrite queue, only because of its files. This is a
/// law: it computes nothing.
pub fn merges_stand_for_both()
    ensures stands { (q : LogQueue) (c d e : Context) (h k : List Event) → Suits q c.files
        → Suits q d.files → StandsFor c h → StandsFor d k → merged_context q c d ≡ Some e
        → StandsFor e (h ++ k) }
    ensures exact { (q : LogQueue) (c d e : Context) (h k : List Event) → Suits q c.files
        → Suits q d.files → IsExactFor c h → IsExactFor d k → Apart (h ++ k)
        → merged_context q c d ≡ Some e → IsExactFor e (h ++ k) }
    ensures refused { (q : LogQueue) (c d : Context) (h k : List Event) → Suits q c.files
        → Suits q d.files → StandsFor c h → StandsFor d k → merged_context q c d ≡ None
        → Sound (h ++ k) → ⊥ }
    ensures rewrite { (c d : Context) → follows c.files d.files ≡ true
        → merged_context Rewrite c d ≡ None → ⊥ }
{}

/// States what two contexts stand for whose regions are merged one by one, in any order, into the older or
/// into the newer context. It is what [`merges_stand_for_both`] says of a merge at once. This is a law: it
/// computes nothing.
pub fn regions_merge_one_by_one()
    ensures stands { (q : LogQueue) (c d : Context) (h k : List Event) (regions : MarkedRegions)
        → Suits q c.files → Suits q d.files → StandsFor c h → StandsFor d k
        → follows c.files d.files ≡ true → AreMerged q c d regions
        → StandsFor (merged_with c d regions) (h ++ k) }
    ensures exact { (q : LogQueue) (c d : Context) (h k : List Event) (regions : MarkedRegions)
        → Suits q c.files → Suits q d.files → IsExactFor c h → IsExactFor d k → Apart (h ++ k)
        → follows c.files d.files ≡ true → AreMerged q c d regions
        → IsExactFor (merged_with c d regions) (h ++ k) }
    ensures refused { (q : LogQueue) (c d : Context) (h k : List Event) → Suits q c.files
        → Suits q d.files → StandsFor c h → StandsFor d k → AreRegionsRefused q c d → Sound (h ++ k)
        → ⊥ }
    ensures files { (q : LogQueue) (c d : Context) (h k : List Event) → Suits q c.files
        → Suits q d.files → StandsFor c h → StandsFor d k → follows c.files d.files ≡ false
        → Sound (h ++ k) → ⊥ }
    ensures rewrite { (c d : Context) → AreRegionsRefused Rewrite c d → ⊥ }
{}

/// States that a merge at once gives what merging the regions one by one gives, in any order, and is refused
/// exactly if that is. So what is said of either holds of both. This is a law: it computes nothing.
pub fn merges_go_region_by_region()
    ensures same { (q : LogQueue) (c d e : Context) → (merged_context q c d ≡ Some e)
        ↔ ((follows c.files d.files ≡ true) × AreMerged q c d e.regions
        × (e ≡ merged_with c d e.regions)) }
    ensures refused { (q : LogQueue) (c d : Context) → (merged_context q c d ≡ None)
        ↔ ((follows c.files d.files ≡ false) ⊎ AreRegionsRefused q c d) }
{}

/// States that a context that stands exactly for a history has the tables and cleaned regions that one
/// reading of the history gives. This is a law: it computes nothing.
pub fn exact_contexts_are_one_reading()
    ensures { (q : LogQueue) (c : Context) (h : List Event) → IsExactFor c h → Suits q c.files
        → IsOneReading q h c.regions.tables c.cleaned }
{}

/// States that a context that stands exactly for a history holds no more than the history may hold, in each
/// of its counts. This is a law: it computes nothing.
pub fn exact_contexts_keep_no_more_than_their_history()
    ensures { (q : LogQueue) (c : Context) (h : List Event) (tables : Tables) (cleaned : List ℕ)
        → IsExactFor c h → Suits q c.files → IsOneReading q h tables cleaned
        → IsAtMost (kept_of c) (kept_by q h tables) }
{}

/// States that contexts that stand exactly for the same history hold the same, whatever merges made them.
/// This is a law: it computes nothing.
pub fn exact_contexts_agree()
    ensures { (c d : Context) (h : List Event) → IsExactFor c h → IsExactFor d h
        → (c.regions.tables ≡ d.regions.tables) × (c.groups ≡ d.groups) × (c.cleaned ≡ d.cleaned)
        × (c.files ≡ d.files) }
{}

/// States that joining the waiting groups of two neighbors makes no records: those that wait after it, and
/// those of the groups that it made whole, are together no more than waited in both. This is a law: it
/// computes nothing.
pub fn joining_groups_makes_no_records()
    ensures { (older newer : WaitingGroups)
        → waiting_records (joined_groups older newer) + records_in_wholes (whole_groups older newer)
        ≤ waiting_records older + waiting_records newer }
{}

/// States that the steps of groups that become whole between two histories of a queue are steps that a replay
/// of that queue accepts. This is a law: it computes nothing.
pub fn whole_groups_have_steps_of_their_queue()
    ensures { (q : LogQueue) (h k : List Event)
        → FilesFrom q 0 h → AllByRecursion (λ (e : Event). AreInFile e.file e.items) h
        → FilesFrom q 0 k → AllByRecursion (λ (e : Event). AreInFile e.file e.items) k
        → AllByRecursion (λ (s : RegionStep). IsStepOfQueue q s.step)
        (region_steps_of_wholes (whole_groups (groups_in (batches h)) (groups_in (batches k)))) }
{}
