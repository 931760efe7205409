//! [`KeyValues`]: the key values of a region's table.

ghost use Rattle.std.specs.Prelude.{◌≡◌, ◌+◌, ◌≤◌, ◌∷◌, ◌++◌, ◌↔◌, IsTrue, OnOk, OnErr, IfOk, IfSome, IfNone, filter, length, map, take};
ghost use Rattle.raft_table.specs.Common.{option_copied, option_map, CalledAtTwo, LogQueue, VisitsUntilFalse, pairs_between, Keys, pair_count, file_weight, value_at, file_at, with_moved, seqs_in, least, lesser, is_up_to, pairs_up_to};
ghost use Rattle.raft_table.specs.Common.{pairs_shown, pairs_over, ArePartlyOver};
ghost use Rattle.std.specs.FinMap as finite;
ghost use Rattle.std.specs.FinSet as finset;

mod scan;

use crate::memtable::deleted_keys::DeletedKeys;
use crate::memtable::mark::lesser_or_only;
use raft_base::{AllocResult, FileId, FileSeq, LogQueue};
use scan::{copy_or_keep_bound, is_forward, pairs_in_range, visit_backward, visit_forward};
use std::alloc::Global;
use std::collections::BTreeMap;
use std::marker::Model;
use std::mem::swap;

/// The value of a key, and the file that it was written to.
#[derive(Debug, Drop)]
struct StoredValue {
    /// The value.
    value: Vec<u8>,
    /// The file that it was written to.
    file: FileId,
}

/// The key values of a region's table, in the order of the bytes of their keys.
#[derive(Debug, Drop)]
pub struct KeyValues {
    /// The value of each key, and its file.
    pairs: BTreeMap<Vec<u8>, StoredValue>,
    /// The number of values that are in files of the rewrite queue.
    rewritten: usize,
    /// The allocator of keys and values.
    alloc: Global,
}

impl Model for KeyValues {
    ghost use Rattle.raft_table.specs.KeyValues.{Keys};
    ghost use Rattle.raft_table.specs.KeyValueCode.{keys_code};

    ghost Value = { Keys };

    ghost coded = { keys_code };

    ghost use Rattle.raft_table.specs.KeyValueView.{keys_shown, IsOrderedAndCounted};

    ghost view = { keys_shown };

    ghost invariant = { IsOrderedAndCounted };
}

impl KeyValues {
    /// Returns an empty map, which will allocate from `alloc`, and allocates nothing yet.
    pub fn new(alloc: Global) -> KeyValues
        ensures { result ≡ finite.empty }
    {
        KeyValues {
            pairs: BTreeMap::new(alloc),
            rewritten: 0,
            alloc,
        }
    }

    /// Returns the number of keys that have a value.
    pub fn len(&self) -> usize
        ensures { result ≡ finite.len self.now }
    {
        self.pairs.len()
    }

    /// Tests whether no key has a value.
    pub fn is_empty(&self) -> bool
        ensures { IsTrue result ↔ (self.now ≡ finite.empty) }
    {
        self.pairs.is_empty()
    }

    /// Removes all keys, with their values.
    pub fn clear(&mut self)
        ensures { self.new ≡ finite.empty }
    {
        self.pairs.clear();
        self.rewritten = 0;
    }

    /// Returns the number of values that are in files of `queue`.
    pub fn count_in(&self, queue: LogQueue) -> usize
        ensures { result ≡ pair_count queue self.now }
    {
        match queue {
            LogQueue::Append => self.pairs.len() - self.rewritten,
            LogQueue::Rewrite => self.rewritten,
        }
    }

    /// Returns the value of `key`, or `None` if it has none.
    pub fn get(&self, key: &[u8]) -> Option<&[u8]>
        ensures { option_map (λ v. v.now) result ≡ value_at self.now key.now }
    {
        Some(self.pairs.get(key)?.value.as_slice())
    }

    /// Returns copies of the keys that have a value and are in `set`, in the order of their bytes.
    ///
    /// # Errors
    ///
    /// `AllocError` if there is no memory for them.
    pub fn keys_in(&self, set: &DeletedKeys) -> AllocResult<Vec<Vec<u8>>>
        ensures { IfOk result (λ keys. map (λ k. k.items) keys.items
            ≡ filter (finset.contains set.now) (finite.keys self.now)) }
    {
        copy_keys_in(self.alloc, &self.pairs, set)
    }

    /// Returns the file that the value of `key` is in, or `None` if the key has no value.
    pub fn file_of(&self, key: &[u8]) -> Option<FileId>
        ensures { result ≡ file_at self.now key.now }
    {
        Some(self.pairs.get(key)?.file)
    }

    /// Gives `key` the value `value`, which is in `file`. Returns the file of the value that it replaces, or
    /// `None` if the key had none.
    ///
    /// # Errors
    ///
    /// `AllocError` if there is no memory for it. The map is unchanged then, and `key` and `value` are
    /// dropped.
    #[inline(always)]
    pub fn insert(
        &mut self,
        key: Vec<u8>,
        value: Vec<u8>,
        file: FileId,
    ) -> AllocResult<Option<FileId>>
        ensures ok { OnOk result (self.new
            ≡ finite.insert self.old key.items (record { value = value.items; file = file })) }
        ensures replaced { IfOk result (λ replaced. replaced ≡ file_at self.old key.items) }
        ensures counts { IfOk result (λ replaced. (queue : LogQueue)
            → pair_count queue self.new + file_weight queue replaced
            ≡ pair_count queue self.old + file_weight queue (Some file)) }
        ensures err { OnErr result (self.new ≡ self.old) }
    {
        prove!(self.rewritten <= self.pairs.len());
        let replaced = file_of_pair(self.pairs.insert(key, StoredValue { value, file })?);
        self.rewritten = self.rewritten - one_if_rewritten(replaced) + one_if_rewritten(Some(file));
        Ok(replaced)
    }

    /// Removes `key` with its value, and returns the file that the value was in, or `None` if the key had no
    /// value.
    pub fn remove(&mut self, key: &[u8]) -> Option<FileId>
        ensures after { self.new ≡ finite.remove self.old key.now }
        ensures removed { result ≡ file_at self.old key.now }
        ensures counts { (queue : LogQueue)
            → pair_count queue self.new + file_weight queue result ≡ pair_count queue self.old }
    {
        let removed = self.pairs.remove(key)?;
        self.rewritten -= one_if_rewritten(Some(removed.file));
        Some(removed.file)
    }

    /// Sets the file of the value of `key` to `file`, and returns the file that it was in before. Returns
    /// `None`, and changes nothing, if the key has no value.
    pub fn set_file(&mut self, key: &[u8], file: FileId) -> Option<FileId>
        ensures after { self.new ≡ with_moved self.old key.now file }
        ensures moved { result ≡ file_at self.old key.now }
        ensures counts { (queue : LogQueue)
            → pair_count queue self.new + file_weight queue result
            ≡ pair_count queue self.old + file_weight queue (option_map (λ _. file) result) }
    {
        prove!(self.rewritten <= self.pairs.len());
        let pair = self.pairs.get_mut(key)?;
        let left = pair.file;
        pair.file = file;
        self.rewritten = self.rewritten - one_if_rewritten(Some(left))
            + one_if_rewritten(Some(file));
        Some(left)
    }

    /// Returns the lowest number of the files of `queue` that values are in, or `None` if no value is in
    /// `queue`. It looks at every value.
    pub fn least_seq_in(&self, queue: LogQueue) -> Option<FileSeq>
        ensures { result ≡ least (seqs_in queue self.now) }
    {
        let mut least: Option<FileSeq> = None;
        for pair in self.pairs.values() {
            if pair.file.queue == queue {
                least = lesser_or_only(least, Some(pair.file.seq));
            }
        }
        least
    }

    /// Appends copies of keys and values to `vec`, in the order of the keys: those in files of `queue` and,
    /// with a `gate`, with file numbers of at most `gate`.
    ///
    /// # Errors
    ///
    /// `AllocError` if there is no memory for them. `vec` is unchanged then.
    pub fn fetch(
        &self,
        queue: LogQueue,
        gate: Option<FileSeq>,
        vec: &mut Vec<(Vec<u8>, Vec<u8>)>,
    ) -> AllocResult<()>
        ensures ok { OnOk result (pairs_shown vec.new.items
            ≡ pairs_shown vec.old.items ++ pairs_up_to queue gate self.now) }
        ensures err { OnErr result (vec.new.items ≡ vec.old.items) }
    {
        let len = vec.len();
        let pushed = push_copied_pairs(&self.pairs, queue, gate, vec);
        if pushed.is_err() {
            vec.truncate(len);
        }
        pushed
    }

    /// Calls `f` with each key that is at least `start` and below `end`, and its value, until `f` returns
    /// false. Keys come in the order of their bytes or, with `reverse`, in the opposite order. A bound that
    /// is `None` doesn't limit its side. If `start` is above `end`, `f` isn't called.
    pub fn scan<F: FnMut(&[u8], &[u8]) -> bool>(
        &self,
        start: Option<&[u8]>,
        end: Option<&[u8]>,
        reverse: bool,
        f: F,
    )
        requires { F.IsAlwaysCallable f }
        ensures { (last : F)
            × VisitsUntilFalse (CalledAtTwo F.FnMut) f (pairs_between (option_copied start.entry)
            (option_copied end.entry) reverse self.now) last }
    {
        if !is_forward(start, end) {
            return;
        }
        let (first, start) = copy_or_keep_bound(self.alloc, start);
        let (past, end) = copy_or_keep_bound(self.alloc, end);
        let pairs = pairs_in_range(&self.pairs, &first, &past);
        if reverse {
            visit_backward(pairs, start, end, f);
        } else {
            visit_forward(pairs, start, end, f);
        }
    }

    /// Moves the key values of `rhs` into this map, in place of those of the same keys, and leaves `rhs`
    /// empty.
    ///
    /// # Errors
    ///
    /// `AllocError` if there is no memory for one of them. Those before it, by their keys, have then been
    /// moved, it is lost itself, and the others are left in `rhs`.
    pub fn absorb(&mut self, rhs: &mut KeyValues) -> AllocResult<()>
        ensures ok { OnOk result (self.new ≡ pairs_over rhs.old self.old) }
        ensures emptied { OnOk result (rhs.new ≡ finite.empty) }
        ensures err { OnErr result (ArePartlyOver rhs.old self.old self.new rhs.new) }
        ensures bounded { (queue : LogQueue)
            → pair_count queue self.new ≤ pair_count queue self.old + pair_count queue rhs.old }
    {
        if self.is_empty() {
            swap(self, rhs);
            return Ok(());
        }
        while let Some((key, pair)) = rhs.take_first() {
            self.insert(key, pair.value, pair.file)?;
        }
        Ok(())
    }

    /// Removes the least key, by its bytes, and returns it with its value. Returns `None` if the map is
    /// empty.
    fn take_first(&mut self) -> Option<(Vec<u8>, StoredValue)>
        ensures first { IfSome result (λ p. finite.entries self.old
            ≡ (p.0.items, record { value = p.1.value.items; file = p.1.file })
            ∷ finite.entries self.new) }
        ensures none { IfNone result (self.old ≡ finite.empty) }
        ensures unchanged { IfNone result (self.new ≡ self.old) }
    {
        let (key, pair) = self.pairs.pop_first()?;
        self.rewritten -= one_if_rewritten(Some(pair.file));
        Some((key, pair))
    }
}

/// Appends copies of the keys and values that [`KeyValues::fetch`] asks for to `vec`.
///
/// # Errors
///
/// `AllocError` if there is no memory for one of them. Those before it have then been appended; `fetch`
/// removes them again.
fn push_copied_pairs(
    pairs: &BTreeMap<Vec<u8>, StoredValue>,
    queue: LogQueue,
    gate: Option<FileSeq>,
    vec: &mut Vec<(Vec<u8>, Vec<u8>)>,
) -> AllocResult<()>
    ensures ok { OnOk result (pairs_shown vec.new.items
        ≡ pairs_shown vec.old.items ++ map (λ e. (e.0.items, e.1.value.items)) (filter
        (λ e. is_up_to queue gate e.1.file) pairs.now.entries)) }
    ensures kept { take (length vec.old.items) vec.new.items ≡ vec.old.items }
{
    for (key, pair) in pairs {
        if is_in_queue_up_to(pair.file, queue, gate) {
            vec.push((copy_bytes(key)?, copy_bytes(&pair.value)?))?;
        }
    }
    Ok(())
}

/// Returns copies of the keys of `pairs` that are in `set`, in order: the loop of [`KeyValues::keys_in`].
///
/// # Errors
///
/// `AllocError` if there is no memory for them.
fn copy_keys_in(
    alloc: Global,
    pairs: &BTreeMap<Vec<u8>, StoredValue>,
    set: &DeletedKeys,
) -> AllocResult<Vec<Vec<u8>>>
    ensures { IfOk result (λ keys. map (λ k. k.items) keys.items
        ≡ filter (finset.contains set.now) (map (λ e. e.0.items) pairs.now.entries)) }
{
    let mut keys = Vec::new(alloc);
    for (key, _) in pairs {
        if set.contains(key) {
            keys.push(copy_bytes(key)?)?;
        }
    }
    Ok(keys)
}

/// Returns a copy of `bytes`.
///
/// # Errors
///
/// `AllocError` if there is no memory for it.
fn copy_bytes(bytes: &Vec<u8>) -> AllocResult<Vec<u8>>
    ensures { IfOk result (λ copy. copy.items ≡ bytes.now.items) }
{
    bytes.clone()
}

/// Tests whether `file` is in `queue` and, with a `gate`, has a number of at most `gate`.
fn is_in_queue_up_to(file: FileId, queue: LogQueue, gate: Option<FileSeq>) -> bool
    ensures { result ≡ is_up_to queue gate file }
{
    file.queue == queue && gate.is_none_or(|gate| file.seq <= gate)
}

/// Returns the file of `pair`, or `None` if there is no pair.
fn file_of_pair(pair: Option<StoredValue>) -> Option<FileId>
    ensures { result ≡ option_map (λ s. s.file) pair }
{
    pair.map(|pair| pair.file)
}

/// Returns how many of the values in the rewrite queue a value in `file` is: 1 if `file` is in that queue,
/// and 0 if it isn't or is `None`.
fn one_if_rewritten(file: Option<FileId>) -> usize
    ensures { result ≡ file_weight LogQueue.Rewrite file }
{
    match file {
        Some(file) if file.queue == LogQueue::Rewrite => 1,
        _ => 0,
    }
}
