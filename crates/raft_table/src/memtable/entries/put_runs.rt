//! How runs are put into the blocks of a table's entries, without being counted.

ghost use Rattle.std.specs.Prelude.{◌≢◌, MatchBool, ◌≡◌, ◌+◌, ◌≤◌, ◌<◌, ℕ, [], ◌++◌, length, take, drop, slice_index_or, Some, OnOk, OnErr, IfOk};
ghost use Rattle.raft_table.specs.Common.{Rewrite, EntryIndex, entries_of_block, spans_of, run_shown, AreTableEntries, count_in};

use crate::memtable::block::Block;
use crate::memtable::entries::block_deques::{
    FEW, binary_search_spot, copy_spans_after, ensure_starts, find_spot, is_same_place, push_block,
    push_block_with_start, replace_blocks, replace_blocks_without_starts, spot_after_kept,
    spot_at_position,
};
use crate::memtable::entries::{Entries, Spans};
use crate::memtable::run::Run;
use raft_base::{AllocResult, EntryIndex, FileBlockHandle, LogQueue};
use std::alloc::Global;
use std::collections::VecDeque;
use std::mem::swap;

impl Entries {
    /// Returns the entries of `run`, in blocks.
    ///
    /// # Errors
    ///
    /// `AllocError` if there is no memory for them.
    pub(super) fn from_run(alloc: Global, run: &[EntryIndex]) -> AllocResult<Entries>
        requires { AreTableEntries run.now }
        ensures ok { IfOk result (λ entries. entries ≡ run.now) }
    {
        let mut entries = Entries::new(alloc);
        let mut at = 0;
        while at < run.len() {
            let Some(handle) = run[at].entries else {
                unreachable!()
            };
            let end = at + count_at_place(&handle, run, at);
            let spans = collect_spans(alloc, &run[at..end])?;
            entries.push_entry_block(run[at].index, handle, spans)?;
            at = end;
        }
        Ok(entries)
    }

    /// Appends the entries of one entry block, at the place `handle`: one for each of `spans`, the first with
    /// the index `index`.
    ///
    /// # Errors
    ///
    /// `AllocError` if there is no memory for them. The entries are unchanged then.
    #[inline(always)]
    fn push_entry_block(
        &mut self,
        index: u64,
        handle: FileBlockHandle,
        spans: Spans,
    ) -> AllocResult<()>
        requires filled { 0 < length spans.items }
        requires table_entries { AreTableEntries
            (self.old ++ entries_of_block index handle spans.items) }
        ensures ok { OnOk result
            (self.new ≡ self.old ++ entries_of_block index handle spans.items) }
        ensures err { OnErr result (self.new ≡ self.old) }
    {
        let count = spans.len();
        let first = first_index_after_push(self.len, self.first, index);
        let len = self.len + count;
        let rewritten = self.rewritten + count_if_rewritten(handle.id.queue, count);
        let block = Block { handle, spans };
        if self.starts.is_empty() && self.blocks.len() < FEW {
            push_block(&mut self.blocks, block)?;
        } else {
            ensure_starts(&self.blocks, &mut self.starts, self.first)?;
            push_block_with_start(&mut self.blocks, &mut self.starts, index, block)?;
        }
        self.first = first;
        self.len = len;
        self.rewritten = rewritten;
        Ok(())
    }

    /// Keeps the first `keep` entries, and puts `run` after them, in place of the others. The live counts are
    /// left to the caller.
    ///
    /// # Errors
    ///
    /// `AllocError` if there is no memory for it. The entries are unchanged then.
    #[inline(always)]
    pub(super) fn put_run_after(&mut self, keep: usize, run: &Run<'_>) -> AllocResult<()>
        requires keep { keep ≤ length self.old }
        requires run { 0 < length (run_shown run.now) }
        requires table_entries { AreTableEntries (take keep self.old ++ run_shown run.now) }
        ensures ok { OnOk result (self.new ≡ take keep self.old ++ run_shown run.now) }
        ensures err { OnErr result (self.new ≡ self.old) }
    {
        match *run {
            Run::Entries(run) => self.put_entries_after(keep, run),
            Run::Block {
                first,
                handle,
                spans,
            } => {
                let spans = Vec::from_slice(self.allocator(), spans)?;
                self.put_block_after(keep, first, handle, VecDeque::from_vec(spans))
            }
        }
    }

    /// Keeps the first `keep` entries, and puts those of the list `run` after them, in place of the others.
    /// If all of `run` has one place, it makes no list of blocks of it.
    ///
    /// # Errors
    ///
    /// `AllocError` if there is no memory for them. The entries are unchanged then.
    #[inline(never)]
    fn put_entries_after(&mut self, keep: usize, run: &[EntryIndex]) -> AllocResult<()>
        requires keep { keep ≤ length self.old }
        requires run { 0 < length run.now }
        requires table_entries { AreTableEntries (take keep self.old ++ run.now) }
        ensures ok { OnOk result (self.new ≡ take keep self.old ++ run.now) }
        ensures err { OnErr result (self.new ≡ self.old) }
    {
        let alloc = self.allocator();
        let first = run[0];
        if let Some(handle) = first.entries
            && count_at_place(&handle, run, 0) == run.len()
        {
            let spans = collect_spans(alloc, run)?;
            return self.put_block_after(keep, first.index, handle, spans);
        }
        let mut entries = Entries::from_run(alloc, run)?;
        self.move_run_after(keep, &mut entries)
    }

    /// Keeps the first `keep` entries, and puts those of one entry block, at the place `handle`, after them,
    /// in place of the others: one for each of `spans`, the first with the index `index`.
    ///
    /// # Errors
    ///
    /// `AllocError` if there is no memory for them. The entries are unchanged then.
    #[inline(always)]
    fn put_block_after(
        &mut self,
        keep: usize,
        index: u64,
        handle: FileBlockHandle,
        spans: Spans,
    ) -> AllocResult<()>
        requires keep { keep ≤ length self.old }
        requires filled { 0 < length spans.items }
        requires table_entries { AreTableEntries
            (take keep self.old ++ entries_of_block index handle spans.items) }
        ensures ok { OnOk result
            (self.new ≡ take keep self.old ++ entries_of_block index handle spans.items) }
        ensures err { OnErr result (self.new ≡ self.old) }
    {
        if keep == self.len {
            return self.push_entry_block(index, handle, spans);
        }
        let mut run = Entries::new(self.allocator());
        run.push_entry_block(index, handle, spans)?;
        self.move_run_after(keep, &mut run)
    }

    /// Keeps the first `keep` entries, and moves those of `run` after them, in place of the others. Leaves
    /// `run` empty.
    ///
    /// # Errors
    ///
    /// `AllocError` if there is no memory for them. Both are unchanged then.
    pub(super) fn move_run_after(&mut self, keep: usize, run: &mut Entries) -> AllocResult<()>
        requires keep { keep ≤ length self.old }
        requires run { 0 < length run.old }
        requires table_entries { AreTableEntries (take keep self.old ++ run.old) }
        ensures ok { OnOk result ((self.new ≡ take keep self.old ++ run.old) × (run.new ≡ [])) }
        ensures err { OnErr result ((self.new ≡ self.old) × (run.new ≡ run.old)) }
    {
        if keep == 0 {
            swap(self, run);
            run.clear();
            return Ok(());
        }
        if self.has_few_blocks_with(run) {
            return self.move_run_without_starts(keep, run);
        }
        self.move_run_with_starts(keep, run)
    }

    /// Tests whether these entries and those of `run` have at most `FEW` blocks together, so that first
    /// indexes of blocks needn't be kept.
    fn has_few_blocks_with(&self, run: &Entries) -> bool {
        self.blocks.len() <= FEW && run.blocks.len() <= FEW - self.blocks.len()
    }

    /// Does what [`Entries::move_run_after`] does, if both have few blocks and some of these entries stay
    /// (`keep` is above 0): moves the entries of `run` after the first `keep`. The first indexes of blocks
    /// aren't kept.
    ///
    /// # Errors
    ///
    /// `AllocError` if there is no memory for them. Both are unchanged then.
    fn move_run_without_starts(&mut self, keep: usize, run: &mut Entries) -> AllocResult<()>
        requires keep { (0 < keep) × (keep ≤ length self.old) }
        requires run { 0 < length run.old }
        requires table_entries { AreTableEntries (take keep self.old ++ run.old) }
        ensures ok { OnOk result ((self.new ≡ take keep self.old ++ run.old) × (run.new ≡ [])) }
        ensures err { OnErr result ((self.new ≡ self.old) × (run.new ≡ run.old)) }
    {
        let (nth, last) = spot_at_position(
            &self.blocks,
            &self.starts,
            self.first,
            self.len,
            keep - 1,
        );
        replace_blocks_without_starts(&mut self.blocks, (nth + 1, last + 1), &mut run.blocks)?;
        self.starts.clear();
        run.starts.clear();
        self.len = keep + run.len;
        self.rewritten = self.rewritten.min(keep) + run.rewritten;
        run.len = 0;
        run.rewritten = 0;
        Ok(())
    }

    /// Does what [`Entries::move_run_after`] does, if some of these entries stay (`keep` is above 0): moves
    /// the entries of `run` after the first `keep`. The first indexes of blocks are kept.
    ///
    /// # Errors
    ///
    /// `AllocError` if there is no memory for them. Both are unchanged then.
    fn move_run_with_starts(&mut self, keep: usize, run: &mut Entries) -> AllocResult<()>
        requires keep { (0 < keep) × (keep ≤ length self.old) }
        requires run { 0 < length run.old }
        requires table_entries { AreTableEntries (take keep self.old ++ run.old) }
        ensures ok { OnOk result ((self.new ≡ take keep self.old ++ run.old) × (run.new ≡ [])) }
        ensures err { OnErr result ((self.new ≡ self.old) × (run.new ≡ run.old)) }
    {
        ensure_starts(&self.blocks, &mut self.starts, self.first)?;
        ensure_starts(&run.blocks, &mut run.starts, run.first)?;
        let (nth, last) = binary_search_spot(&self.starts, self.first + (keep - 1) as u64);
        let rest = self.blocks.len();
        replace_blocks(
            &mut self.blocks,
            &mut self.starts,
            (nth + 1, last + 1),
            rest,
            &mut run.blocks,
            &mut run.starts,
        )?;
        self.len = keep + run.len;
        self.rewritten = self.rewritten.min(keep) + run.rewritten;
        run.len = 0;
        run.rewritten = 0;
        Ok(())
    }

    /// Replaces the entries from position `at` on by those of `run`, as many as there are. Some entries must
    /// come after these; they stay.
    ///
    /// # Errors
    ///
    /// `AllocError` if there is no memory for them. The entries are unchanged then, and `run` is dropped.
    pub(super) fn replace_entries_at(&mut self, at: usize, run: Entries) -> AllocResult<()>
        requires run { 0 < length run }
        requires behind { at + length run < length self.old }
        requires table_entries { AreTableEntries
            (take at self.old ++ run ++ drop (at + length run) self.old) }
        ensures ok { OnOk result (self.new
            ≡ take at self.old ++ run ++ drop (at + length run) self.old) }
        ensures err { OnErr result (self.new ≡ self.old) }
    {
        ensure_starts(&self.blocks, &mut self.starts, self.first)?;
        let kept = self.rewritten.min(at);
        let end = at + run.len;
        let passed = self.rewritten.min(end);
        let moved = kept + run.rewritten;
        let rewritten = moved + (self.rewritten - passed);
        let index = self.first + end as u64;
        let (nth, dropped) = find_spot(&self.starts, self.first, self.len, index);
        let block = &self.blocks[nth];
        let handle = block.handle;
        let spans = copy_spans_after(*self.blocks.allocator(), &block.spans, dropped)?;
        let spot = spot_after_kept(&self.starts, self.first, at);
        let mut blocks = run.blocks;
        let mut starts = run.starts;
        ensure_starts(&blocks, &mut starts, run.first)?;
        push_block_with_start(&mut blocks, &mut starts, index, Block { handle, spans })?;
        replace_blocks(
            &mut self.blocks,
            &mut self.starts,
            spot,
            nth + 1,
            &mut blocks,
            &mut starts,
        )?;
        self.rewritten = rewritten;
        Ok(())
    }
}

/// Returns the index of the first entry once others, from `index` on, are put after `len` entries from
/// `first` on: `first`, or `index` if there are none before.
fn first_index_after_push(len: usize, first: u64, index: u64) -> u64
    ensures { (len ≡ 0 → result ≡ index) × (0 < len → result ≡ first) }
{
    if len == 0 { index } else { first }
}

/// Returns how many of `count` entries in a file of `queue` are in the rewrite queue: all or none.
fn count_if_rewritten(queue: LogQueue, count: usize) -> usize
    ensures { result ≡ count_in Rewrite queue count }
{
    match queue {
        LogQueue::Append => 0,
        LogQueue::Rewrite => count,
    }
}

/// Returns how many entries of `run`, from position `at` on, one after the other, have the place `handle`.
fn count_at_place(handle: &FileBlockHandle, run: &[EntryIndex], at: usize) -> usize
    requires { at ≤ length run.now }
    ensures within { at + result ≤ length run.now }
    ensures all { (j : ℕ) (d : EntryIndex) → at ≤ j → j < at + result
        → (slice_index_or run.now j d).entries ≡ Some handle.now }
    ensures some { (d : EntryIndex) → at < length run.now →
        (slice_index_or run.now at d).entries ≡ Some handle.now → 0 < result }
{
    for i in at..run.len() {
        if !is_at_place(&run[i], handle) {
            return i - at;
        }
    }
    run.len() - at
}

/// Tests whether the place of `entry` is `handle`.
fn is_at_place(entry: &EntryIndex, handle: &FileBlockHandle) -> bool
    ensures { MatchBool result (entry.now.entries ≡ Some handle.now)
        (entry.now.entries ≢ Some handle.now) }
{
    entry.entries.is_some_and(|own| is_same_place(&own, handle))
}

/// Returns the offset and the length of each entry of `run`, as the spans of a block.
///
/// # Errors
///
/// `AllocError` if there is no memory for them.
fn collect_spans(alloc: Global, run: &[EntryIndex]) -> AllocResult<Spans>
    ensures ok { IfOk result (λ spans. spans.items ≡ spans_of run.now) }
{
    let mut spans = Vec::with_capacity(alloc, run.len())?;
    for entry in run {
        spans.push_reserved((entry.entry_offset, entry.entry_len));
    }
    Ok(VecDeque::from_vec(spans))
}
