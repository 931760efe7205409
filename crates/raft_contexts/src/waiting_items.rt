//! Steps of an atomic group that isn't whole yet.

ghost use Rattle.std.specs.Prelude.{◌≡◌, ◌++◌, ℕ, ◌==◌, [], ◌∷◌, length, map, IsTrue, OnOk, IfOk};
ghost use Rattle.raft_contexts.specs.Common.{list_any, item_of, region_step_shown, steps_of_items, names};

use raft_base::AllocResult;
use raft_history::RegionStep;
use raft_records::LogItem;
use std::alloc::Global;
use std::marker::Model;

/// The steps of items that wait until their atomic group is whole, in order. An item without a step, such as
/// the group's own marker, isn't kept.
#[doc(hidden)]
#[derive(Debug, Drop)]
pub struct WaitingItems {
    steps: Vec<RegionStep>,
}

impl Model for WaitingItems {
    ghost use Rattle.std.specs.Prelude.{List};
    ghost use Rattle.raft_history.specs.RegionSteps.{RegionStep};

    ghost Value = { List RegionStep };

    ghost use Rattle.raft_contexts.specs.WaitingItemsView.{steps_shown};

    ghost view = { steps_shown };
}

impl WaitingItems {
    /// Returns a list without steps. It allocates nothing yet.
    pub fn new(alloc: Global) -> WaitingItems
        ensures { result ≡ [] }
    {
        WaitingItems {
            steps: Vec::new(alloc),
        }
    }

    /// Returns the steps of `items`, in order. Items without a step, such as group markers, are left out.
    ///
    /// # Errors
    ///
    /// `AllocError` if there is no memory. The items are dropped then.
    pub fn of_items(items: Vec<LogItem>) -> AllocResult<WaitingItems>
        ensures { IfOk result (λ waiting. waiting ≡ steps_of_items (map item_of items.items)) }
    {
        let mut steps = Vec::with_capacity(*items.allocator(), items.len())?;
        for item in items {
            if let Some(step) = RegionStep::of_item(item) {
                steps.push(step)?;
            }
        }
        Ok(WaitingItems { steps })
    }

    /// Returns how many steps wait.
    pub fn len(&self) -> usize
        ensures { result ≡ length self.now }
    {
        self.steps.len()
    }

    /// Moves the steps of `more` to the end of these.
    ///
    /// # Errors
    ///
    /// `AllocError` if there is no memory. The steps of `more` are dropped then.
    pub fn append(&mut self, more: WaitingItems) -> AllocResult<()>
        ensures { OnOk result (self.new ≡ self.old ++ more) }
    {
        let mut more = more.steps;
        self.steps.append(&mut more)?;
        Ok(())
    }

    /// Returns the ids of the regions that the steps change, in the order of the steps. Neighboring steps of
    /// one region give its id once, but an id may be there twice.
    ///
    /// # Errors
    ///
    /// `AllocError` if there is no memory.
    pub fn regions(&self) -> AllocResult<Vec<u64>>
        ensures { IfOk result
            (λ ids. (r : ℕ) → list_any (λ id. r == id) ids.items ≡ names r self.now) }
    {
        let mut ids: Vec<u64> = Vec::new(*self.steps.allocator());
        for step in &self.steps {
            let id = step.region;
            if !ends_with_id(&ids, id) {
                ids.push(id)?;
            }
        }
        Ok(ids)
    }

    /// Returns the steps, in order.
    pub fn into_steps(self) -> Vec<RegionStep>
        ensures { map region_step_shown result.items ≡ self }
    {
        self.steps
    }
}

/// Tests whether the last of `ids` is `id`. False if there are none.
fn ends_with_id(ids: &[u64], id: u64) -> bool
    ensures { (r : ℕ) → IsTrue result → list_any (λ i. r == i) (ids.now ++ id ∷ []) ≡ list_any
        (λ i. r == i) ids.now }
{
    ids.last().is_some_and(|last| *last == id)
}
