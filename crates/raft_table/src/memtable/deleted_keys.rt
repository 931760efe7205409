//! [`DeletedKeys`]: the set of keys that the steps of a region mark delete.

ghost use Rattle.std.specs.Prelude.{◌≡◌, ◌<◌, ◌≤◌, OnOk, OnErr, IfSome, IfNone, map};
ghost use Rattle.raft_table.specs.Common.{LogQueue, without, pair_count};
ghost use Rattle.std.specs.FinSet as finset;

use crate::memtable::key_values::KeyValues;
use raft_base::AllocResult;
use std::alloc::Global;
use std::collections::BTreeMap;
use std::marker::Model;
use std::mem;

/// A set of deleted keys, in the order of their bytes.
#[doc(hidden)]
#[derive(Debug, Drop)]
pub struct DeletedKeys {
    /// The deleted keys.
    keys: BTreeMap<Vec<u8>, ()>,
}

impl Model for DeletedKeys {
    ghost use Rattle.raft_table.specs.KeySets.{KeySet, key_set_code};

    ghost Value = { KeySet };

    ghost coded = { key_set_code };

    ghost use Rattle.raft_table.specs.KeySetView.{key_set_shown, IsInOrder};

    ghost view = { key_set_shown };

    ghost invariant = { IsInOrder };
}

impl DeletedKeys {
    /// Returns an empty set, which will allocate from `alloc`, and allocates nothing yet.
    pub fn new(alloc: Global) -> DeletedKeys
        ensures { result ≡ finset.empty }
    {
        DeletedKeys {
            keys: BTreeMap::new(alloc),
        }
    }

    /// Returns the number of keys in the set.
    pub fn len(&self) -> usize
        ensures { result ≡ finset.len self.now }
    {
        self.keys.len()
    }

    /// Tests whether `key` is in the set.
    pub fn contains(&self, key: &[u8]) -> bool
        ensures { result ≡ finset.contains self.now key.now }
    {
        self.keys.contains_key(key)
    }

    /// Removes all keys from the set.
    pub fn clear(&mut self)
        ensures { self.new ≡ finset.empty }
    {
        self.keys.clear();
    }

    /// Adds `key`. The set stays as it is if `key` is in it already.
    ///
    /// # Errors
    ///
    /// `AllocError` if there is no memory for it. The set is unchanged then, and `key` is dropped.
    pub fn insert(&mut self, key: Vec<u8>) -> AllocResult<()>
        ensures ok { OnOk result (self.new ≡ finset.insert self.old key.items) }
        ensures err { OnErr result (self.new ≡ self.old) }
    {
        self.keys.insert(key, ())?;
        Ok(())
    }

    /// Moves the keys of `rhs` into this set, and leaves `rhs` empty. If `rhs` is the larger one, the two
    /// sets are swapped first, so that few keys are inserted.
    ///
    /// # Errors
    ///
    /// `AllocError` if there is no memory for a key. That key is lost then, and each of the others is in one
    /// of the two sets: neither set may be used after that.
    pub fn absorb(&mut self, rhs: &mut DeletedKeys) -> AllocResult<()>
        ensures ok { OnOk result (self.new ≡ finset.union self.old rhs.old) }
        ensures emptied { OnOk result (rhs.new ≡ finset.empty) }
    {
        if self.len() < rhs.len() {
            mem::swap(self, rhs);
            return self.move_each_from(rhs);
        }
        self.move_each_from(rhs)
    }

    /// Moves the keys of `rhs` into this set one by one, and leaves `rhs` empty.
    ///
    /// # Errors
    ///
    /// `AllocError` if there is no memory for a key. That key is lost then; those before it, by their bytes,
    /// have been moved, and those after it are left in `rhs`.
    fn move_each_from(&mut self, rhs: &mut DeletedKeys) -> AllocResult<()>
        ensures ok { OnOk result (self.new ≡ finset.union self.old rhs.old) }
        ensures emptied { OnOk result (rhs.new ≡ finset.empty) }
    {
        while let Some(key) = rhs.take_first() {
            self.insert(key)?;
        }
        Ok(())
    }

    /// Removes the least key, by its bytes, and returns it. Returns `None` if the set is empty.
    fn take_first(&mut self) -> Option<Vec<u8>>
        ensures first { IfSome result (λ k. self.old ≡ finset.insert self.new k.items) }
        ensures fewer { IfSome result (λ k. finset.len self.new < finset.len self.old) }
        ensures none { IfNone result ((self.old ≡ finset.empty) × (self.new ≡ finset.empty)) }
    {
        let (key, _) = self.keys.pop_first()?;
        Some(key)
    }

    /// Removes the keys of this set, with their values, from `keys`. Keys that have no value there are
    /// skipped.
    pub fn delete_from(&self, keys: &mut KeyValues)
        ensures after { keys.new ≡ without self.now keys.old }
        ensures fewer { (q : LogQueue) → pair_count q keys.new ≤ pair_count q keys.old }
    {
        remove_keys_from(&self.keys, keys);
    }
}

/// Removes the keys of `deleted`, with their values, from `keys`: the loop of [`DeletedKeys::delete_from`].
fn remove_keys_from(deleted: &BTreeMap<Vec<u8>, ()>, keys: &mut KeyValues)
    ensures after { keys.new
        ≡ without (finset.from_list (map (λ e. e.0.items) deleted.now.entries)) keys.old }
    ensures fewer { (q : LogQueue) → pair_count q keys.new ≤ pair_count q keys.old }
{
    for (key, _) in deleted {
        keys.remove(key);
    }
}
