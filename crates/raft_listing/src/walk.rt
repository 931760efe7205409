//! Walks through parts of files, from batch to batch, past damage where a header leads on.

ghost use Rattle.std.specs.Prelude.{◌≡◌, ◌≢◌, ℕ, ◌<◌, ◌≤◌, length, drop, map, Some, IfErr, IfNone, IfOk, IfSome, OnOk};
ghost use Rattle.raft_codec.specs.Reading.{HasNoFront};
ghost use Rattle.raft_base.specs.Signature.{signature_in};
ghost use Rattle.raft_records.specs.FilePart.{Part, IsBatchAt, IsNextFault};
ghost use Rattle.raft_records.specs.Item.{item_of};
ghost use Rattle.raft_records.specs.LogBatch.{IsReadable};
ghost use Rattle.raft_base.specs.declared.errors.Error.{Error as Refusal};
ghost use Rattle.raft_listing.specs.Walks.{EndsByHeader, EndsNowhere, HasWalked, IsMet, IsVisited, Met, batch, damage};

use raft_base::{Error, Result};
use raft_records::{FilePart, LogItem, next_batch};
use raft_replay::cutting::batch_length;

/// What a walk shows the batches of parts of files to, in order, and the bytes at which no batch can be read.
pub trait PartVisitor {
    /// A visit at a byte of a part, of what is met there, leaves this.
    ghost visits: { Self → Part → ℕ → Met → Self → Type 0 };

    /// A visit may fail so.
    ghost may_fail: { Refusal → Type 0 };

    /// Visits a batch that can be read. It stands from position `at` to position `next` of the part's bytes.
    ///
    /// # Errors
    ///
    /// The visitor's own. What the visitor keeps then is its own matter.
    fn visit_batch(
        &mut self,
        part: &FilePart,
        at: usize,
        next: usize,
        items: &[LogItem],
    ) -> Result<()>
        requires { IsBatchAt part.now at (map item_of items.now) next }
        ensures ok { OnOk result (visits self.old part.now at (batch (map item_of items.now) next) self.new) }
        ensures fault { IfErr result may_fail };

    /// Visits position `at` of the part's bytes, at which no batch can be read for `reason`. `next` is where the batch ends by the header
    /// that stands at `at`; `None` if no header stands there, or the batch would end after the part. The walk goes on at `next`.
    ///
    /// # Errors
    ///
    /// The visitor's own. What the visitor keeps then is its own matter.
    fn visit_damage(
        &mut self,
        part: &FilePart,
        at: usize,
        next: Option<usize>,
        reason: Error,
    ) -> Result<()>
        requires inside { at < length part.now.bytes }
        requires met { IsMet part.now at (damage next reason) }
        ensures ok { OnOk result (visits self.old part.now at (damage next reason) self.new) }
        ensures fault { IfErr result may_fail };
}

/// Shows `visitor` all that stands in a part, from its first byte on: each batch that can be read, and each byte at which the walk finds
/// none. From such a byte the walk goes on at the end of the batch that a header there names. It ends if no header stands there, or if the
/// batch would end after the part.
///
/// # Errors
///
/// Those of the visitor, and `Memory`. The visitor was shown what stands before the failure.
pub fn walk_part<V: PartVisitor>(part: &FilePart, visitor: &mut V) -> Result<()>
    ensures ok { OnOk result (HasWalked V.visits part.now visitor.old visitor.new) }
    ensures fault { IfErr result (λ e. e ≢ Error.Memory → V.may_fail e) }
{
    let mut at = 0;
    while at < part.bytes().len() {
        let behind = visit_byte(part, at, visitor)?;
        let Some(next) = behind else {
            return Ok(());
        };
        at = next;
    }
    Ok(())
}

/// Shows `visitor` what stands at position `at` of the part's bytes, which is below their number. Returns the position at which the walk
/// goes on; `None` if no batch can be read there, and no header leads on.
fn visit_byte<V: PartVisitor>(part: &FilePart, at: usize, visitor: &mut V) -> Result<Option<usize>>
    requires { at < length part.now.bytes }
    ensures ok { IfOk result (λ next. IsVisited V.visits part.now at next visitor.old visitor.new) }
    ensures ahead { IfOk result (λ next. IfSome next (λ n. at < n)) }
    ensures inside { IfOk result (λ next. IfSome next (λ n. n ≤ length part.now.bytes)) }
    ensures fault { IfErr result (λ e. e ≢ Error.Memory → V.may_fail e) }
{
    match next_batch(part, at) {
        Ok(Some((batch, next))) => {
            visitor.visit_batch(part, at, next, batch.as_slice())?;
            Ok(Some(next))
        }
        Ok(None) => unreachable!(),
        Err(reason) => visit_damage_unless_memory(part, at, reason, visitor),
    }
}

/// Shows `visitor` that no batch can be read at position `at` of the part's bytes, for `reason`. Returns the position at which the walk
/// goes on; `None` if no header leads on. If `reason` is `Memory`, nothing is shown, and it is returned as the error.
fn visit_damage_unless_memory<V: PartVisitor>(
    part: &FilePart,
    at: usize,
    reason: Error,
    visitor: &mut V,
) -> Result<Option<usize>>
    requires inside { at < length part.now.bytes }
    requires none { reason ≢ Error.Memory → HasNoFront (λ bytes. IsReadable bytes (signature_in part.now.version part.now.id.seq))
        (drop at part.now.bytes) }
    requires fault { IsNextFault (signature_in part.now.version part.now.id.seq) (drop at part.now.bytes) reason }
    ensures ok { IfOk result (λ next. IsVisited V.visits part.now at next visitor.old visitor.new) }
    ensures ahead { IfOk result (λ next. IfSome next (λ n. at < n)) }
    ensures inside { IfOk result (λ next. IfSome next (λ n. n ≤ length part.now.bytes)) }
    ensures fault { IfErr result (λ e. e ≢ Error.Memory → V.may_fail e) }
{
    match reason {
        Error::Memory => Err(Error::Memory),
        reason => visit_unreadable(part, at, reason, visitor),
    }
}

/// Shows `visitor` that no batch can be read at position `at` of the part's bytes, for a `reason` other than `Memory`. Returns the position
/// at which the walk goes on; `None` if no header leads on.
fn visit_unreadable<V: PartVisitor>(
    part: &FilePart,
    at: usize,
    reason: Error,
    visitor: &mut V,
) -> Result<Option<usize>>
    requires inside { at < length part.now.bytes }
    requires other { reason ≢ Error.Memory }
    requires none { HasNoFront (λ bytes. IsReadable bytes (signature_in part.now.version part.now.id.seq))
        (drop at part.now.bytes) }
    requires fault { IsNextFault (signature_in part.now.version part.now.id.seq) (drop at part.now.bytes) reason }
    ensures ok { IfOk result (λ next. IsVisited V.visits part.now at next visitor.old visitor.new) }
    ensures ahead { IfOk result (λ next. IfSome next (λ n. at < n)) }
    ensures inside { IfOk result (λ next. IfSome next (λ n. n ≤ length part.now.bytes)) }
    ensures fault { IfErr result (λ e. e ≢ Error.Memory → V.may_fail e) }
{
    let next = batch_end_by_header(part, at);
    visitor.visit_damage(part, at, next, reason)?;
    Ok(next)
}

/// Returns the position in the part's bytes at which the batch at position `at` ends by its header. `None` if no header stands there, or
/// the batch would end after the part.
fn batch_end_by_header(part: &FilePart, at: usize) -> Option<usize>
    requires { at ≤ length part.now.bytes }
    ensures some { IfSome result (EndsByHeader part.now at) }
    ensures none { IfNone result (EndsNowhere part.now at) }
    ensures ahead { IfSome result (λ next. at < next) }
    ensures inside { IfSome result (λ next. next ≤ length part.now.bytes) }
{
    let (_, left) = part.bytes().split_at(at);
    match batch_length(part.allocator(), left) {
        Some(len) => Some(at + len),
        None => None,
    }
}
