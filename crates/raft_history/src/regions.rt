//! Laws of the tables and region marks of all regions. The *region mark* of steps says what they do to any
//! older table of their region.

ghost use Rattle.std.specs.Prelude.{◌≡◌, ℕ, List, Option, Some, if◌then◌else◌};
ghost use Rattle.raft_history.specs.Common.{AllByRecursion, FileId, LogQueue, Append, Item, overlaid_table, Table, Event, BatchSteps, batches, AreExact, steps_of, is_named, AreInFile, IsStepOfQueue, StandForSteps, AreJoined};
ghost use Rattle.raft_history.specs.Common.{overlaid_region, MarkedRegions, no_regions, regions_after, region_steps_of_whole, RegionStep, steps_of_items, WholeGroup};
ghost use Rattle.std.specs.FinMap as finite;

/// States that tables and region marks that stand for steps still do so after further steps, items, whole
/// groups or joins. Those of no region stand for steps, and so do those that are exact for a history. This is
/// a law: it computes nothing.
pub fn regions_stand_for_steps()
    ensures none { (q : LogQueue) → StandForSteps q no_regions }
    ensures steps { (q : LogQueue) (rs new : MarkedRegions) (steps : List RegionStep)
        → AllByRecursion (λ (s : RegionStep). IsStepOfQueue q s.step) steps
        → StandForSteps q rs → regions_after q rs steps ≡ Some new → StandForSteps q new }
    ensures items { (file : FileId) (items : List Item) (rs new : MarkedRegions)
        → AreInFile file items → StandForSteps file.queue rs
        → regions_after file.queue rs (steps_of_items items) ≡ Some new
        → StandForSteps file.queue new }
    ensures whole { (q : LogQueue) (rs new : MarkedRegions) (w : WholeGroup)
        → AllByRecursion (λ (s : RegionStep). IsStepOfQueue q s.step) w.steps → StandForSteps q rs
        → regions_after q rs (region_steps_of_whole w) ≡ Some new → StandForSteps q new }
    ensures joined { (q : LogQueue) (older newer new : MarkedRegions) → StandForSteps q older
        → StandForSteps q newer → AreJoined q older newer new → StandForSteps q new }
    ensures exact { (q : LogQueue) (rs : MarkedRegions) (h : List Event)
        → AllByRecursion (λ (e : Event). AreInFile e.file e.items) h → AreExact q rs (batches h)
        → StandForSteps q rs }
{}

/// States that a region mark is enough to overlay a region, without the steps that it stands for. Where
/// region marks and tables are exact for batches of the append queue, a region that the batches name gets
/// by its mark, over any rewritten table, what it gets by its steps; any other region keeps its rewritten
/// table. This is a law: it computes nothing.
#[tactic(auto, using(crate::proofs::RegionLaws::overlay_by_steps))]
pub fn region_marks_overlay_as_their_steps_do()
    ensures { (r : ℕ) (rs : MarkedRegions) (bs : List BatchSteps) (rewritten : Option Table)
        → AreExact Append rs bs
        → overlaid_region r (finite.get rs.marks r) (finite.get rs.tables r) rewritten
        ≡ (if is_named r bs then overlaid_table r (steps_of r bs) (finite.get rs.tables r) rewritten
        else rewritten) }
{}
