//! Atomic groups: log batches of the rewrite queue that take effect together or not at all.
//!
//! Each batch of a group has a *group marker*, an item that says of which group it is and whether the group
//! begins, goes on or ends with it.

ghost use Rattle.std.specs.Prelude.{◌≡◌, ℕ, Option, Some, None, IfErr, OnOk, OnErr, ◌↔◌, List, IsTrue, IfOk};
ghost use Rattle.raft_records.specs.Common.{Begin, Middle, End, IsRunning, group_marker_item, status_byte, marker_byte, IsGroupMarkerRead, IsGroupMarkerFault, reserved_key, is_reserved, marker_of, Item, item_of, pair, pair_of, is_open};
ghost use Rattle.raft_records.specs.Common.{with_item, IsStatusFault};
ghost use Rattle.raft_base.specs.declared.errors.Error.{Error as Refusal};
ghost use Rattle.raft_records.specs.declared.atomic_group.AtomicGroupStatus.{AtomicGroupStatus as Status};

use crate::{KeyValue, LogBatch, LogItem, LogItemContent, OpType};
use raft_base::{Error, Result};
use std::alloc::Global;
use std::marker::Model;

/// The key of group markers. It is reserved for them: no other value is put under it.
pub const ATOMIC_GROUP_KEY: [u8; 3] = [b'_', b'_', 1];

/// Whether a batch begins, continues or ends its atomic group.
#[derive(Clone, Copy, PartialEq, Debug)]
pub enum AtomicGroupStatus {
    /// The batch is the first one of the group.
    Begin = 0,
    /// The batch is neither the first nor the last one of the group.
    Middle = 1,
    /// The batch is the last one of the group, which takes effect with it.
    End = 2,
}

impl AtomicGroupStatus {
    /// Returns the number of the group and the status that `item` marks, or `None` if `item` isn't a group
    /// marker. The number is the region id of the marker. `alloc` is for the text of an error.
    ///
    /// # Errors
    ///
    /// `Corruption` if `item` is a marker whose value stands for no status; `Memory` if there is none for its
    /// text.
    pub fn parse(alloc: Global, item: &LogItem) -> Result<Option<(u64, AtomicGroupStatus)>>
        ensures ok { IfOk result (IsGroupMarkerRead (item_of item.now)) }
        ensures fault { IfErr result (IsGroupMarkerFault (item_of item.now)) }
    {
        let LogItemContent::Kv(kv) = &item.content else {
            return Ok(None);
        };
        let Some(byte) = marker_byte(kv) else {
            return Ok(None);
        };
        let status = AtomicGroupStatus::from_u8(alloc, byte)?;
        Ok(Some((item.raft_group_id, status)))
    }

    /// Returns the status that `byte` stands for: 0 for `Begin`, 1 for `Middle`, 2 for `End`. `alloc` is for
    /// the text of an error.
    ///
    /// # Errors
    ///
    /// `Corruption` for any other byte; `Memory` if there is none for its text.
    fn from_u8(alloc: Global, byte: u8) -> Result<AtomicGroupStatus>
        ensures ok { IfOk result (λ status. byte ≡ status_byte status) }
        ensures fault { IfErr result (IsStatusFault byte) }
    {
        match byte {
            0 => Ok(AtomicGroupStatus::Begin),
            1 => Ok(AtomicGroupStatus::Middle),
            2 => Ok(AtomicGroupStatus::End),
            _ => Err(Error::Corruption(format!(in alloc;
                "Unrecognized atomic group status: {byte}"
            )?)),
        }
    }
}

/// Tests whether `key` is the one that is reserved for group markers, the bytes `5f 5f 01`. A value under it
/// never gets into a table.
#[tactic(auto, using(crate::proofs::GroupLemmas::reserved_by))]
pub fn is_reserved(key: &[u8]) -> bool
    ensures meaning { IsTrue result ↔ (key.now ≡ reserved_key) }
    ensures value { result ≡ is_reserved key.now }
{
    key == ATOMIC_GROUP_KEY.as_slice()
}

/// Returns the value of `kv`, if it is a group marker: a put of one byte under the reserved key. Returns
/// `None` for any other change.
fn marker_byte(kv: &KeyValue) -> Option<u8>
    ensures { result ≡ marker_byte (pair (pair_of kv.now)) }
{
    if kv.op_type != OpType::Put || !is_reserved(kv.key.as_slice()) {
        return None;
    }
    match &kv.value {
        Some(value) if value.len() == 1 => Some(value[0]),
        _ => None,
    }
}

/// A builder of one atomic group, which adds a group marker to each of its batches: `Begin` to the first,
/// `End` to the last, and `Middle` to those between. Each call needs a batch of its own, since only the first
/// group marker of a batch is read. So a group has at least two batches.
#[derive(Debug, Drop)]
pub struct AtomicGroupBuilder {
    /// The number of the group.
    id: u64,
    /// The status of the group marker that was added last, if any was.
    status: Option<AtomicGroupStatus>,
}

impl Model for AtomicGroupBuilder {
    ghost use Rattle.raft_records.specs.Group.{AtomicGroupBuilder};

    ghost Value = { AtomicGroupBuilder };

    ghost view = { λ group. record { id = group.id; state = group.status } };
}

impl AtomicGroupBuilder {
    /// Returns a builder of the group with the number `id`, which has no batches yet.
    pub fn with_id(id: u64) -> AtomicGroupBuilder
        ensures { result ≡ record { id = id; state = None } }
    {
        AtomicGroupBuilder { id, status: None }
    }

    /// Returns the status of the group marker that was added last, or `None` if none was added.
    pub fn state(&self) -> Option<AtomicGroupStatus>
        ensures { result ≡ self.now.state }
    {
        self.status
    }

    /// Begins the group with `log_batch`, which must be open: adds a `Begin` marker to it. It must be the
    /// first call on the builder.
    ///
    /// # Errors
    ///
    /// `Memory` alone. Builder and batch are unchanged then.
    pub fn begin(&mut self, log_batch: &mut LogBatch) -> Result<()>
        requires open { log_batch.old.stage ≡ is_open }
        requires fresh { self.old.state ≡ None }
        ensures ok { OnOk result (log_batch.new
            ≡ with_item log_batch.old (group_marker_item self.old.id Begin)) }
        ensures state { OnOk result (self.new ≡ record self.old { state = Some Begin }) }
        ensures err { OnErr result (self.new ≡ self.old) }
        ensures batch_err { OnErr result (log_batch.new ≡ log_batch.old) }
        ensures memory { IfErr result (λ e. e ≡ Error.Memory) }
    {
        self.add_marker(AtomicGroupStatus::Begin, log_batch)
    }

    /// Continues the group with `log_batch`, which must be open: adds a `Middle` marker to it. The group must
    /// have begun and not ended.
    ///
    /// # Errors
    ///
    /// `Memory` alone. Builder and batch are unchanged then.
    pub fn add(&mut self, log_batch: &mut LogBatch) -> Result<()>
        requires open { log_batch.old.stage ≡ is_open }
        requires running { IsRunning self.old.state }
        ensures ok { OnOk result (log_batch.new
            ≡ with_item log_batch.old (group_marker_item self.old.id Middle)) }
        ensures state { OnOk result (self.new ≡ record self.old { state = Some Middle }) }
        ensures err { OnErr result (self.new ≡ self.old) }
        ensures batch_err { OnErr result (log_batch.new ≡ log_batch.old) }
        ensures memory { IfErr result (λ e. e ≡ Error.Memory) }
    {
        self.add_marker(AtomicGroupStatus::Middle, log_batch)
    }

    /// Ends the group with `log_batch`, which must be open: adds an `End` marker to it. The group must have
    /// begun and not ended. No batch can be added after it.
    ///
    /// # Errors
    ///
    /// `Memory` alone. Builder and batch are unchanged then.
    pub fn end(&mut self, log_batch: &mut LogBatch) -> Result<()>
        requires open { log_batch.old.stage ≡ is_open }
        requires running { IsRunning self.old.state }
        ensures ok { OnOk result (log_batch.new
            ≡ with_item log_batch.old (group_marker_item self.old.id End)) }
        ensures state { OnOk result (self.new ≡ record self.old { state = Some End }) }
        ensures err { OnErr result (self.new ≡ self.old) }
        ensures batch_err { OnErr result (log_batch.new ≡ log_batch.old) }
        ensures memory { IfErr result (λ e. e ≡ Error.Memory) }
    {
        self.add_marker(AtomicGroupStatus::End, log_batch)
    }

    /// Adds a group marker with `status` to `log_batch`, which is open: a put of one byte under the reserved
    /// key.
    ///
    /// # Errors
    ///
    /// `Memory` alone. Builder and batch are unchanged then.
    fn add_marker(&mut self, status: AtomicGroupStatus, log_batch: &mut LogBatch) -> Result<()>
        requires { log_batch.old.stage ≡ is_open }
        ensures ok { OnOk result (log_batch.new
            ≡ with_item log_batch.old (group_marker_item self.old.id status)) }
        ensures state { OnOk result (self.new ≡ record self.old { state = Some status }) }
        ensures err { OnErr result (self.new ≡ self.old) }
        ensures batch_err { OnErr result (log_batch.new ≡ log_batch.old) }
        ensures memory { IfErr result (λ e. e ≡ Error.Memory) }
    {
        let alloc = log_batch.allocator();
        let key = Vec::from_slice(alloc, &ATOMIC_GROUP_KEY)?;
        let value = Vec::from_slice(alloc, &[status as u8])?;
        log_batch.put_unchecked(self.id, key, value)?;
        self.status = Some(status);
        Ok(())
    }
}

/// States that a group marker that was added is read as the marker of its group with its status, and is never
/// refused. What is read of an item depends on the item alone. [`is_reserved`] is true of the reserved key
/// alone. This is a law: it computes nothing.
#[tactic(auto, using(crate::proofs::GroupLemmas::marker_written, crate::proofs::GroupLemmas::marker_read, crate::proofs::GroupLemmas::marker_accepted, crate::proofs::GroupLemmas::marker_is, crate::proofs::GroupLemmas::reserved_test))]
pub fn group_markers_are_read_again()
    ensures is_marker { (id : ℕ) (status : Status) →
        marker_byte (group_marker_item id status).content ≡ Some (status_byte status) }
    ensures read { (item : Item) (status : Status) (read : Option (ℕ × Status)) →
        marker_byte item.content ≡ Some (status_byte status) → IsGroupMarkerRead item read →
        read ≡ Some (item.raft_group_id, status) }
    ensures accepted { (item : Item) (status : Status) (e : Refusal) →
        marker_byte item.content ≡ Some (status_byte status) → IsGroupMarkerFault item e → ⊥ }
    ensures value { (item : Item) (read : Option (ℕ × Status)) →
        IsGroupMarkerRead item read → marker_of item ≡ read }
    ensures reserved { (key : List ℕ) → IsTrue (is_reserved key) ↔ (key ≡ reserved_key) }
{}
