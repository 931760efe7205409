//! A region mark in the small form in which a slot keeps it.

ghost use Rattle.std.specs.Prelude.{◌≡◌, ◌++◌, IfErr, IfOk, IfSome, OnOk, OnErr, MatchBool, Ok, Some};
ghost use Rattle.raft_contexts.specs.Common.{LogQueue, fresh, joined_at, MayChangeMark, ChangesMark, IsOneUpdated};
ghost use Rattle.raft_contexts.specs.TakenBatches.{AreOpen, with_mark_told};
ghost use Rattle.std.specs.FinSet as finset;

use crate::taken_away::{TakenAway, add_taken_by_mark};
use raft_base::{AllocResult, Error, LogQueue, Result};
use raft_table::{Mark, MemTable};
use std::alloc::Global;
use std::marker::Model;

/// A region mark in 16 bytes: the start of a run, where that is all that it says, or a pointer to the whole
/// mark. So a map of many grows at little cost.
#[derive(Drop)]
pub(crate) struct SmallMark {
    form: Form,
    alloc: Global,
}

const _: () = prove!(std::mem::size_of::<SmallMark>() == 16);

/// The two forms in which a region mark is kept.
#[derive(Drop)]
enum Form {
    /// The start of a run: the region mark is that of this run alone.
    Run(u64),
    /// Any region mark, in a box of its own.
    Whole(Box<Mark>),
}

impl Model for SmallMark {
    ghost use Rattle.raft_table.specs.Marks.{Mark};
    ghost use Rattle.raft_table.specs.MarkCode.{mark_code};

    ghost Value = { Mark };

    ghost coded = { mark_code };

    ghost use Rattle.raft_contexts.specs.SmallMarkView.{small_mark_shown};

    ghost view = { small_mark_shown };
}

impl SmallMark {
    /// Returns the region mark of one run, which starts at index `start`. It allocates nothing.
    pub(crate) fn of_run(alloc: Global, start: u64) -> SmallMark
        ensures { result ≡ record fresh { reach = Some start; cut = Some start } }
    {
        SmallMark {
            form: Form::Run(start),
            alloc,
        }
    }

    /// Returns `mark` in the form in which a slot keeps it: as the start of its run if it is seen to be that
    /// of one run alone, else in a box.
    ///
    /// # Errors
    ///
    /// `AllocError` if there is no memory for the box. `mark` is dropped then.
    fn from_mark(alloc: Global, mark: Mark) -> AllocResult<SmallMark>
        ensures { IfOk result (λ kept. kept ≡ mark) }
    {
        if let Some(start) = find_only_run(&mark) {
            return Ok(SmallMark::of_run(alloc, start));
        }
        let form = Form::Whole(Box::new(alloc, mark)?);
        Ok(SmallMark { form, alloc })
    }

    /// Returns the whole region mark.
    pub(crate) fn into_mark(self) -> Mark
        ensures { result ≡ self }
    {
        match self.form {
            Form::Run(start) => Mark::of_run(self.alloc, start),
            Form::Whole(mark) => Box::into_inner(mark),
        }
    }

    /// Adds what this region mark takes away from `table`, the region's rewritten table, to `taken`, as
    /// [`add_taken_by_mark`] does. `first` is the index of the region's first entry in the append queue, or
    /// `None` if it has none.
    ///
    /// # Errors
    ///
    /// `Memory` alone. Some of it may have been added then.
    pub(crate) fn add_taken_away(
        &self,
        first: Option<u64>,
        table: &MemTable,
        taken: &mut TakenAway,
    ) -> Result<()>
        requires { AreOpen taken.old }
        ensures ok { OnOk result (taken.new ≡ with_mark_told self.now first table.now taken.old) }
        ensures memory { IfErr result (λ e. e ≡ Error.Memory) }
    {
        match &self.form {
            Form::Run(start) => add_taken_by_mark(
                &Mark::of_run(self.alloc, *start),
                first,
                table,
                taken,
            ),
            Form::Whole(mark) => add_taken_by_mark(mark, first, table, taken),
        }
    }

    /// Returns the start of the run if the mark is kept as that of one run alone, else `None`.
    pub(crate) fn kept_run_start(&self) -> Option<u64>
        ensures { IfSome result (λ start. self.now
            ≡ record fresh { reach = Some start; cut = Some start }) }
    {
        match &self.form {
            Form::Run(start) => Some(*start),
            Form::Whole(_) => None,
        }
    }

    /// Returns how many deleted keys the mark has.
    pub(crate) fn deleted_keys(&self) -> usize
        ensures { result ≡ finset.len self.now.deleted }
    {
        match &self.form {
            Form::Run(_) => 0,
            Form::Whole(mark) => mark.deleted_keys().len(),
        }
    }

    /// Adds a newer run, which starts at index `start`, to the region mark. `end` is the index after the last
    /// entry that the context gave the region before the run, or 0 if it gave none.
    ///
    /// # Errors
    ///
    /// `AllocError` if there is no memory. The region mark is unchanged then.
    pub(crate) fn add_run(&mut self, queue: LogQueue, end: u64, start: u64) -> AllocResult<()>
        ensures ok { OnOk result (self.new ≡ joined_at queue end self.old
            (record fresh { reach = Some start; cut = Some start })) }
        ensures err { OnErr result (self.new ≡ self.old) }
    {
        if self.covers_run(end, start) {
            return Ok(());
        }
        self.update(move |mark: &mut Mark| {
            mark.add_run(queue, end, start);
            Ok(())
        })
    }

    /// Calls `change` with the region mark, and keeps the result.
    ///
    /// # Errors
    ///
    /// That of `change`, or `AllocError` if there is no memory to keep the result. A mark that was kept as
    /// the start of a run is unchanged then; one in a box is as `change` left it.
    #[inline(always)]
    pub(crate) fn update<F: FnOnce(&mut Mark) -> AllocResult<()>>(
        &mut self,
        change: F,
    ) -> AllocResult<()>
    where
        F: Drop,
        requires { MayChangeMark F.FnOnce change self.old }
        ensures { IsOneUpdated F.FnOnce change self.old result self.new }
    {
        match &mut self.form {
            Form::Whole(mark) => change(mark),
            Form::Run(start) => {
                let mark = Mark::of_run(self.alloc, *start);
                *self = SmallMark::from_changed(self.alloc, mark, change)?;
                Ok(())
            }
        }
    }

    /// Calls `change` with `mark`, and returns the result in the form in which a slot keeps it.
    ///
    /// # Errors
    ///
    /// That of `change`, or `AllocError` if there is no memory to keep the result. `mark` is dropped then.
    #[inline(always)]
    pub(crate) fn from_changed<F: FnOnce(&mut Mark) -> AllocResult<()>>(
        alloc: Global,
        mut mark: Mark,
        change: F,
    ) -> AllocResult<SmallMark>
    where
        F: Drop,
        requires { MayChangeMark F.FnOnce change mark }
        ensures { IfOk result (ChangesMark F.FnOnce change mark (Ok tt)) }
    {
        change(&mut mark)?;
        SmallMark::from_mark(alloc, mark)
    }

    /// Tests, at little cost, whether a newer run, which starts at index `start`, leaves the region mark as
    /// it is, where the entries that the context gave the region end before index `end`. `false` doesn't say
    /// that it changes it. So most runs need no larger mark.
    fn covers_run(&self, end: u64, start: u64) -> bool
        ensures { MatchBool result ((queue : LogQueue) → joined_at queue end self.now
            (record fresh { reach = Some start; cut = Some start }) ≡ self.now) (Unit {0}) }
    {
        match &self.form {
            Form::Run(first) if *first <= start && start <= end && 0 < end => true,
            _ => false,
        }
    }
}

/// Returns the start of the run if `mark` is seen to be that of one run alone, else `None`.
fn find_only_run(mark: &Mark) -> Option<u64>
    ensures { IfSome result (λ start. mark.now
        ≡ record fresh { reach = Some start; cut = Some start }) }
{
    let (Some(reach), Some(cut)) = (mark.reach(), mark.cut()) else {
        return None;
    };
    if reach != cut || mark.is_cleaned() || mark.reach_floor() != 0 || mark.floor() != 0 {
        return None;
    }
    match (
        mark.reach_cut(),
        mark.barred_indexes(),
        mark.deleted_keys().len(),
    ) {
        (None, None, 0) => Some(reach),
        _ => None,
    }
}
