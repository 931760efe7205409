//! Laws of the effects of a history: what takes effect at once, a batch without a group marker or a whole
//! atomic group.
//!
//! The *stretch* of an atomic group is its batches from a Begin to the next End, with only Middles of the
//! group between. A group *becomes whole* between two histories if its stretch begins in the first and ends
//! in the second.
#![tactic(auto, using(crate::proofs::Laws::effect_laws))]

ghost use Rattle.std.specs.Prelude.{◌≡◌, ◌≢◌, ◌↔◌, ◌||◌, ℕ, List, [], ◌∷◌, ◌++◌, Some, None, true, false, flat_map};
ghost use Rattle.raft_history.specs.Common.{AllByRecursion, list_any, names, steps_on, WholeGroup, whole_group, group_in, BatchSteps, Effect, EachApart, effects, steps_of, is_named, EndsNoEffect, without_group, AreEffects, groups_in};
ghost use Rattle.raft_history.specs.Common.{joined_groups, whole_groups, groups_after, steps_by_batch, names_by_batch, known_of, steps_of_wholes};

/// States that the effects of a history are its batches without a group marker and the stretches of each
/// group, in the order of their last batches. This is a law: it computes nothing.
pub fn effects_are_stretches()
    ensures are { (h : List BatchSteps) → AreEffects h (effects h) }
    ensures alone { (h : List BatchSteps) (es : List Effect) → AreEffects h es → es ≡ effects h }
{}

/// States that what is known of the groups of two neighboring histories determines what is known of both, one
/// after the other. The same holds for one more batch, and for each group by itself. This is a law: it
/// computes nothing.
pub fn joined_groups_are_those_of_both_histories()
    ensures joined { (h k : List BatchSteps)
        → groups_in (h ++ k) ≡ joined_groups (groups_in h) (groups_in k) }
    ensures more { (h : List BatchSteps) (b : BatchSteps)
        → groups_in (h ++ b ∷ []) ≡ groups_after (groups_in h) b b.marker }
    ensures each { (g : ℕ) (h : List BatchSteps) → known_of (groups_in h) g ≡ group_in g h }
{}

/// States which steps two histories, one after the other, have on a region, if their effects are apart: those
/// of the older one, those of the groups that become whole between them, and those of the newer one. One more
/// batch adds its own steps, or those of the group that it makes whole. This is a law: it computes nothing.
pub fn joined_histories_add_steps_of_whole_groups()
    ensures across { (r : ℕ) (h k : List BatchSteps) → EachApart (effects (h ++ k))
        → steps_of r (h ++ k)
        ≡ steps_of r h
        ++ (steps_of_wholes r (whole_groups (groups_in h) (groups_in k)) ++ steps_of r k) }
    ensures more { (r : ℕ) (h : List BatchSteps) (b : BatchSteps)
        → steps_of r (h ++ b ∷ []) ≡ steps_of r h ++ steps_by_batch r (groups_in h) b b.marker }
{}

/// States that different groups that become whole between two histories name different regions, if the
/// effects of both, one after the other, are apart. This is a law: it computes nothing.
pub fn whole_groups_name_different_regions()
    ensures { (h k : List BatchSteps) → EachApart (effects (h ++ k)) → (g l : ℕ) → g ≢ l
        → (w v : WholeGroup) → whole_group (group_in g h) (group_in g k) ≡ Some w
        → whole_group (group_in l h) (group_in l k) ≡ Some v → (r : ℕ) → names r w.steps ≡ true
        → names r v.steps ≡ true → ⊥ }
{}

/// States that if no batch has a group marker, as in the append queue, each batch is an effect by itself, and
/// the effects are apart. This is a law: it computes nothing.
pub fn batches_without_markers_are_effects()
    ensures apart { (h : List BatchSteps) → AllByRecursion (λ b. b.marker ≡ None) h
        → EachApart (effects h) }
    ensures steps { (r : ℕ) (h : List BatchSteps) → AllByRecursion (λ b. b.marker ≡ None) h
        → steps_of r h ≡ flat_map (λ b. steps_on r b.steps) h }
{}

/// States that a region has steps in the effects of a history exactly if one of them names it. If the effects
/// of two histories, one after the other, are apart, both together name the regions that the older one names,
/// those that the groups name that become whole between them, and those that the newer one names. With one
/// more batch, a history also names what takes effect with that batch. This is a law: it computes nothing.
pub fn named_regions_have_steps()
    ensures steps { (r : ℕ) (h : List BatchSteps) → (is_named r h ≡ false) ↔ (steps_of r h ≡ []) }
    ensures across { (r : ℕ) (h k : List BatchSteps) → EachApart (effects (h ++ k))
        → is_named r (h ++ k)
        ≡ (is_named r h
        || (list_any (λ w. names r w.steps) (whole_groups (groups_in h) (groups_in k))
        || is_named r k)) }
    ensures more { (r : ℕ) (h : List BatchSteps) (b : BatchSteps)
        → is_named r (h ++ b ∷ []) ≡ (is_named r h || names_by_batch r (groups_in h) b b.marker) }
{}

/// States that a group that never becomes whole changes nothing: without its batches every region has the
/// same steps. This is a law: it computes nothing.
pub fn incomplete_groups_change_nothing()
    ensures { (g : ℕ) (h : List BatchSteps) → EndsNoEffect g h → (r : ℕ)
        → steps_of r (without_group g h) ≡ steps_of r h }
{}
