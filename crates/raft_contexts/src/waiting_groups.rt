//! The atomic groups that wait until they are whole.

ghost use Rattle.std.specs.Prelude.{◌≡◌, ℕ, List, [], ◌∷◌, ◌++◌, IfOk, IfSome, IfNone, OnOk, map, option_to_list};
ghost use Rattle.raft_contexts.specs.Common.{option_map, nat_cmp, IsOrdered, is_at, remove_entry, BatchSteps, batch_with_marker, EachApart, effects, steps_of, joined_group, whole_group, one_marker, groups_in, waiting_steps, steps_or};
ghost use Rattle.raft_contexts.specs.Common.{known_of, joined_groups, whole_groups, steps_of_wholes, seen_entries, group_shown, whole_shown};
ghost use Rattle.std.specs.FinMap as finite;

use crate::waiting_group::{WaitingGroup, WholeGroup};
use crate::waiting_items::WaitingItems;
use raft_base::{AllocResult, FileSeq};
use raft_records::AtomicGroupStatus;
use std::alloc::Global;
use std::collections::BTreeMap;
use std::marker::Model;

/// What is known of each group of which a marker was read, by the group's id.
#[doc(hidden)]
#[derive(Debug, Drop)]
pub struct WaitingGroups {
    groups: BTreeMap<u64, WaitingGroup>,
    alloc: Global,
}

impl Model for WaitingGroups {
    ghost use Rattle.raft_history.specs.WaitingGroups.{WaitingGroups};
    ghost use Rattle.raft_contexts.specs.WaitingGroupsCode.{groups_code};

    ghost Value = { WaitingGroups };

    ghost coded = { groups_code };

    ghost use Rattle.raft_contexts.specs.WaitingGroupsView.{groups_seen, AreGroupsOrdered};

    ghost view = { groups_seen };

    ghost invariant = { AreGroupsOrdered };
}

impl WaitingGroups {
    /// Returns a set without groups. It allocates nothing yet.
    pub fn new(alloc: Global) -> WaitingGroups
        ensures { result ≡ finite.empty }
    {
        WaitingGroups {
            groups: BTreeMap::new(alloc),
            alloc,
        }
    }

    /// Returns how many groups there are of which a marker was read.
    pub fn len(&self) -> usize
        ensures { result ≡ finite.len self.now }
    {
        self.groups.len()
    }

    /// Returns how many items wait, in all groups together.
    pub fn waiting_items(&self) -> u128
        ensures { result ≡ waiting_steps self.now }
    {
        let mut count: u128 = 0;
        for group in self.groups.values() {
            count += group.len();
        }
        count
    }

    /// Adds one more batch, which is in the file numbered `seq`, has a marker of the group `id` with this
    /// `status`, and has these `items`. Returns the group if the batch makes it whole, else `None`.
    ///
    /// # Errors
    ///
    /// `AllocError` if there is no memory. What is known of the group may be lost then.
    pub fn add_batch(
        &mut self,
        id: u64,
        status: AtomicGroupStatus,
        items: WaitingItems,
        seq: FileSeq,
    ) -> AllocResult<Option<WholeGroup>>
        ensures known { OnOk result (self.new
            ≡ finite.insert self.old id
            (joined_group (known_of self.old id) (one_marker status items seq))) }
        ensures whole { IfOk result (λ w. option_map whole_shown w
            ≡ whole_group (known_of self.old id) (one_marker status items seq)) }
        ensures stands { (h : List BatchSteps) → self.old ≡ groups_in h
            → OnOk result (self.new ≡ groups_in (h ++ batch_with_marker items id status seq ∷ [])) }
        ensures steps { (h : List BatchSteps) (r : ℕ) → self.old ≡ groups_in h
            → IfOk result (λ w. steps_of r (h ++ batch_with_marker items id status seq ∷ [])
            ≡ steps_of r h ++ steps_or r (option_map whole_shown w)) }
    {
        self.join_group(id, WaitingGroup::of_one_marker(status, items, seq))
    }

    /// Joins `newer`, what is known of the groups of the history that follows directly, to this. Returns the
    /// groups that the two histories together make whole, by rising ids.
    ///
    /// # Errors
    ///
    /// `AllocError` if there is no memory. What is known of some groups may be lost then.
    pub fn join(&mut self, newer: WaitingGroups) -> AllocResult<Vec<WholeGroup>>
        ensures known { OnOk result (self.new ≡ joined_groups self.old newer) }
        ensures wholes { IfOk result (λ w. map whole_shown w.items ≡ whole_groups self.old newer) }
        ensures stands { (h k : List BatchSteps) → self.old ≡ groups_in h → newer ≡ groups_in k
            → OnOk result (self.new ≡ groups_in (h ++ k)) }
        ensures steps { (h k : List BatchSteps) (r : ℕ) → self.old ≡ groups_in h
            → newer ≡ groups_in k → EachApart (effects (h ++ k))
            → IfOk result (λ w. steps_of r (h ++ k)
            ≡ steps_of r h ++ (steps_of_wholes r (map whole_shown w.items) ++ steps_of r k)) }
    {
        let mut rest = newer;
        let mut wholes = Vec::new(self.alloc);
        while let Some((id, group)) = rest.take_first() {
            let whole = self.join_group(id, group)?;
            push_if_some(&mut wholes, whole)?;
        }
        Ok(wholes)
    }

    /// Joins `newer`, what the history that follows directly tells of the group `id`, to what is known of it.
    /// Returns the group if the two histories together make it whole, else `None`.
    ///
    /// # Errors
    ///
    /// `AllocError` if there is no memory. What is known of the group may be lost then.
    fn join_group(&mut self, id: u64, newer: WaitingGroup) -> AllocResult<Option<WholeGroup>>
        ensures known { OnOk result (self.new
            ≡ finite.insert self.old id (joined_group (known_of self.old id) (group_shown newer))) }
        ensures whole { IfOk result (λ w. option_map whole_shown w
            ≡ whole_group (known_of self.old id) (group_shown newer)) }
    {
        let older = remove_group(&mut self.groups, self.alloc, id);
        let (group, whole) = older.join(newer)?;
        self.groups.insert(id, group)?;
        Ok(whole)
    }

    /// Removes the group with the least id, and returns its id and what is known of it, or `None` if there
    /// are no groups.
    fn take_first(&mut self) -> Option<(u64, WaitingGroup)>
        ensures first { IfSome result (λ p. finite.entries self.old
            ≡ (p.0, group_shown p.1) ∷ finite.entries self.new) }
        ensures none { IfNone result (finite.entries self.old ≡ []) }
        ensures unchanged { IfNone result (self.new ≡ self.old) }
    {
        let (id, group) = self.groups.pop_first()?;
        Some((id, group))
    }
}

/// Removes the group `id` from `groups` and returns what is known of it. If `groups` doesn't have it, that is
/// nothing: a group without items, which uses `alloc`.
fn remove_group(groups: &mut BTreeMap<u64, WaitingGroup>, alloc: Global, id: u64) -> WaitingGroup
    requires { IsOrdered nat_cmp groups.old }
    ensures known { group_shown result ≡ known_of (seen_entries groups.old.entries) id }
    ensures rest { groups.new.entries ≡ remove_entry (is_at (nat_cmp id)) groups.old.entries }
    ensures ordered { IsOrdered nat_cmp groups.new }
{
    match groups.remove(&id) {
        Some(group) => group,
        None => WaitingGroup::without_marker(alloc),
    }
}

/// Appends the group `whole` to `wholes`. Does nothing for `None`.
///
/// # Errors
///
/// `AllocError` if there is no memory. `wholes` is unchanged then, and the group is dropped.
fn push_if_some(wholes: &mut Vec<WholeGroup>, whole: Option<WholeGroup>) -> AllocResult<()>
    ensures { OnOk result (map whole_shown wholes.new.items
        ≡ map whole_shown wholes.old.items ++ option_to_list (option_map whole_shown whole)) }
{
    if let Some(whole) = whole {
        wholes.push(whole)?;
    }
    Ok(())
}
