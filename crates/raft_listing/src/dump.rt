//! Dumps of log files: what a walk meets is written batch by batch, item by item, in a form of the caller's choice.

ghost use Rattle.std.specs.Prelude.{ℕ, ◌≡◌, ◌≤◌, List, length, map, string_bytes, IfErr, OnOk};
ghost use Rattle.raft_records.specs.FilePart.{Part, IsBatchAt};
ghost use Rattle.raft_records.specs.Item.{item_of};
ghost use Rattle.raft_listing.specs.Dumped.{Adds};
ghost use Rattle.raft_listing.specs.Walks.{Met, batch, damage};
ghost use Rattle.raft_listing.specs.declared.selection.Selection.{Selection as Selected};

use crate::selection::Selection;
use crate::walk::PartVisitor;
use raft_base::{AllocResult, Error, Result};
use raft_records::{FilePart, LogItem, write_whole};
use std::io::Write;

/// How a dump writes what a walk meets, for example as text or as JSON.
pub trait DumpForm {
    /// This text says what is met at a byte of a part, as far as it is selected.
    ghost says: { Selected → Part → ℕ → Met → List ℕ → Type 0 };

    /// Appends what the dump says of a batch that stands from position `at` to position `next` of the part's bytes. Of its `items` only
    /// those are written that `selection` has.
    ///
    /// # Errors
    ///
    /// `Memory`. Some of the text may then be appended.
    fn append_batch(
        &self,
        part: &FilePart,
        at: usize,
        next: usize,
        items: &[LogItem],
        selection: &Selection,
        text: &mut String,
    ) -> Result<()>
        requires { IsBatchAt part.now at (map item_of items.now) next }
        ensures ok { OnOk result (Adds (says selection.now part.now at (batch (map item_of items.now) next))
            (string_bytes text.old) (string_bytes text.new)) }
        ensures memory { IfErr result (λ e. e ≡ Error.Memory) };

    /// Appends what the dump says of position `at` of the part's bytes, at which no batch can be read for `reason`. `next` is where the
    /// batch ends by the header that stands at `at`; `None` if no header stands there, or the batch would end after the part.
    ///
    /// # Errors
    ///
    /// Fails only if there is no memory. Some of the text may then be appended.
    fn append_damage(
        &self,
        part: &FilePart,
        at: usize,
        next: Option<usize>,
        reason: &Error,
        selection: &Selection,
        text: &mut String,
    ) -> AllocResult<()>
        requires { at ≤ length part.now.bytes }
        ensures { OnOk result (Adds (says selection.now part.now at (damage next reason.now))
            (string_bytes text.old) (string_bytes text.new)) };
}

/// A dump of log files to a writer. It is a visitor of walks: it writes each batch and each place without one as the walk meets it.
#[derive(Drop)]
pub struct Dump<F: DumpForm + Drop, W: Write + Drop> {
    /// How it writes what it meets.
    pub form: F,
    /// Which items and entries it writes.
    pub selection: Selection,
    /// What it writes to.
    pub writer: W,
    /// Whether a walk has met a byte at which no batch can be read. Damaged entries don't count.
    pub is_damaged: bool,
}

impl<F: DumpForm + Drop, W: Write + Drop> PartVisitor for Dump<F, W> {
    ghost use Rattle.std.specs.Prelude.{◌≡◌, ◌≢◌};
    ghost use Rattle.raft_base.specs.declared.errors.Error.TheVariants.{Memory};
    ghost use Rattle.raft_records.specs.Lines.{IsIoError};
    ghost use Rattle.raft_listing.specs.Dumped.{IsDumped, is_damaged_after};

    ghost visits = { λ old part at met new. IsDumped F.says old.selection part at met (W.contents old.writer) (W.contents new.writer)
        × (new.is_damaged ≡ is_damaged_after met old.is_damaged) × (new.selection ≡ old.selection) };

    ghost may_fail = { λ e. e ≢ Memory → IsIoError e };

    /// Writes what the form says of a batch, as far as it is selected.
    ///
    /// # Errors
    ///
    /// `Memory`; nothing is written then. An io error of the writer; some of the text may then be written.
    fn visit_batch(
        &mut self,
        part: &FilePart,
        at: usize,
        next: usize,
        items: &[LogItem],
    ) -> Result<()> {
        let mut text = String::new(part.allocator());
        self.form
            .append_batch(part, at, next, items, &self.selection, &mut text)?;
        write_whole(&mut self.writer, text.as_bytes())
    }

    /// Sets `is_damaged`, and writes what the form says of a byte at which no batch can be read.
    ///
    /// # Errors
    ///
    /// `Memory`; nothing is written then. An io error of the writer; some of the text may then be written. `is_damaged` is set after an
    /// error too.
    fn visit_damage(
        &mut self,
        part: &FilePart,
        at: usize,
        next: Option<usize>,
        reason: Error,
    ) -> Result<()> {
        self.is_damaged = true;
        let mut text = String::new(part.allocator());
        self.form
            .append_damage(part, at, next, &reason, &self.selection, &mut text)?;
        write_whole(&mut self.writer, text.as_bytes())
    }
}
