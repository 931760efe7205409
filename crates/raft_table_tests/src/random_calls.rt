//! Compares a table after random calls with a plain list of its entries.

ghost use Rattle.std.specs.Prelude.{◌<◌};

use crate::store::{Call, LogStore, Run, entry_of_run};
use raft_memtable::{EntryIndex, Error, FileSeq, LogQueue, Mark, MemTable, Result, Step};
use raft_trials::again;
use std::alloc::Global;

/// Random numbers of a linear congruential generator.
#[derive(Drop)]
struct Numbers {
    state: u64,
}

impl Numbers {
    /// Returns the next number, which is below `end`.
    fn draw_below(&mut self, end: u64) -> u64
        requires { 0 < end }
        ensures { result < end }
    {
        self.state = self
            .state
            .wrapping_mul(6_364_136_223_846_793_005)
            .wrapping_add(1_442_695_040_888_963_407);
        (self.state >> 33) % end
    }
}

/// A change of a table.
#[derive(Clone, Copy, Debug)]
enum Change {
    Call(Call),
    /// Merges the table of a run as the newer neighbor.
    MergeNewer(LogQueue, Run),
    /// Merges the table of a run as the appended one.
    MergeAppended(Run),
    /// Merges the table of a run under a region mark that first drops the entries outside of some bounds.
    JoinUnder(LogQueue, Bounds, Run),
}

/// The entries that a compaction and a truncation leave: from the first index on, and below the second.
#[derive(Clone, Copy, Debug)]
struct Bounds {
    floor: u64,
    cut: u64,
}

impl Bounds {
    /// Tests whether an entry is within the bounds.
    fn include(&self, entry: &EntryIndex) -> bool {
        self.floor <= entry.index && entry.index < self.cut
    }
}

/// Draws a run of up to three entries in one of the files 1 to 3. It starts near the entries of a list, or, more
/// rarely, anywhere. All indexes are below 27.
fn draw_run(numbers: &mut Numbers, list: &List) -> Run {
    let near = list
        .start()
        .saturating_add(numbers.draw_below(list.entries.len() as u64 + 2));
    let far = numbers.draw_below(24);
    let first = if numbers.draw_below(16) == 0 {
        far
    } else {
        near.min(24)
    };
    let count = 1 + numbers.draw_below(3);
    (
        first,
        first.saturating_add(count),
        1 + numbers.draw_below(3),
    )
}

/// Draws a change: an append or a rewriting in most cases, else another call or a merge. Its run is one of
/// [`draw_run`].
fn draw_change(numbers: &mut Numbers, list: &List) -> Change {
    let run = draw_run(numbers, list);
    let gate = 1 + numbers.draw_below(3);
    let floor = list.start().saturating_add(numbers.draw_below(3));
    let cut = run
        .0
        .saturating_add(numbers.draw_below(4))
        .saturating_sub(2);
    let bounds = Bounds { floor, cut };
    match numbers.draw_below(26) {
        0..=5 => Change::Call(Call::Append(run)),
        6 => Change::Call(Call::Replay(LogQueue::Append, run)),
        7 => Change::Call(Call::Replay(LogQueue::Rewrite, run)),
        8..=14 => Change::Call(Call::Rewrite(run, Some(gate))),
        15..=17 => Change::Call(Call::Rewrite(run, None)),
        18 => Change::Call(Call::Compact(floor)),
        19 => Change::MergeNewer(LogQueue::Append, run),
        20 => Change::MergeNewer(LogQueue::Rewrite, run),
        21 => Change::MergeAppended(run),
        22 => Change::JoinUnder(LogQueue::Rewrite, bounds, run),
        23..=24 => Change::JoinUnder(LogQueue::Append, bounds, run),
        _ => Change::Call(Call::Truncate(run.0)),
    }
}

/// Returns a table that has replayed a run of `queue`, and nothing else.
///
/// # Errors
///
/// Those of the table's calls; `Memory`.
fn table_of_run(alloc: Global, queue: LogQueue, run: Run) -> Result<MemTable> {
    Ok(LogStore::with_calls(alloc, &[Call::Replay(queue, run)])?.table)
}

/// Makes `change` of a store, by the calls of its table.
///
/// # Errors
///
/// Those of the table's calls; `Memory`.
fn make_change(alloc: Global, store: &mut LogStore, change: Change) -> Result<()> {
    match change {
        Change::Call(call) => {
            store.call_by_method(call)?;
            Ok(())
        }
        Change::MergeNewer(queue, run) => store.merge(&mut table_of_run(alloc, queue, run)?, false),
        Change::MergeAppended(run) => {
            store.merge(&mut table_of_run(alloc, LogQueue::Append, run)?, true)
        }
        Change::JoinUnder(queue, bounds, run) => merge_under_mark(alloc, store, queue, bounds, run),
    }
}

/// Merges the table of a run of `queue` into the store's, as a newer one. Its region mark is that of these steps: a
/// compaction to the floor of `bounds`, a truncation at their cut, and the run.
///
/// # Errors
///
/// Those of [`table_of_run`] and [`LogStore::join_under`]; `Memory`.
fn merge_under_mark(
    alloc: Global,
    store: &mut LogStore,
    queue: LogQueue,
    bounds: Bounds,
    run: Run,
) -> Result<()> {
    let mut mark = Mark::new(alloc);
    mark.add_step(
        queue,
        0,
        &Step::Compact {
            index: bounds.floor,
        },
    )?;
    mark.add_step(queue, 0, &Step::Truncate { index: bounds.cut })?;
    mark.add_run(queue, 0, run.0);
    store.join_under(queue, &mut table_of_run(alloc, queue, run)?, &mark)
}

/// The entries of a table, by rising index, as a plain list.
#[derive(Drop)]
struct List {
    entries: Vec<EntryIndex>,
}

/// Tests whether a run has an entry at an index.
fn run_has_index(run: Run, index: u64) -> bool {
    let (first, end, _) = run;
    first <= index && index < end
}

/// Tests whether an entry is in a queue.
fn is_in_queue(entry: &EntryIndex, queue: LogQueue) -> bool {
    match entry.entries {
        Some(handle) => handle.id.queue == queue,
        None => false,
    }
}

/// Tests whether a rewriting may move an entry.
fn can_entry_move(entry: &EntryIndex, gate: Option<FileSeq>) -> bool {
    match (entry.entries, gate) {
        (Some(handle), Some(gate)) => handle.id.seq <= gate,
        (Some(handle), None) => handle.id.queue == LogQueue::Rewrite,
        (None, _) => false,
    }
}

/// Returns the index past the last entry, 0 where there is none.
fn end_of(last: Option<&EntryIndex>) -> u64 {
    match last {
        Some(last) => last.index.saturating_add(1),
        None => 0,
    }
}

impl List {
    /// Returns the least index, 0 without entries.
    fn start(&self) -> u64 {
        match self.entries.first() {
            Some(first) => first.index,
            None => 0,
        }
    }

    /// Returns the index past the last entry within bounds, 0 where there is none.
    fn end_within(&self, bounds: Bounds) -> u64 {
        end_of(self.entries.iter().filter(|e| bounds.include(e)).last())
    }

    /// Returns the entry at an index; `None` where there is none.
    fn get(&self, index: u64) -> Option<EntryIndex> {
        for entry in &self.entries {
            if entry.index == index {
                return Some(*entry);
            }
        }
        None
    }

    /// Returns how many entries are in a queue.
    fn count_in(&self, queue: LogQueue) -> usize {
        self.entries
            .iter()
            .filter(|e| is_in_queue(e, queue))
            .count()
    }

    /// Tests whether a run leaves no hole if it replaces the entries from its start on.
    fn meets_without_hole(&self, run: Run) -> bool {
        self.entries.is_empty() || run.0 <= end_of(self.entries.last())
    }

    /// Tests whether a rewriting by a run may begin where it does: not behind the first entry that isn't rewritten, and
    /// with a gate exactly there.
    fn can_rewrite(&self, run: Run, gate: Option<FileSeq>) -> bool {
        let (first, _, _) = run;
        if !self.entries.iter().any(|e| run_has_index(run, e.index)) {
            return true;
        }
        let before = self.entries.iter().filter(|e| e.index < first).count();
        let rewritten = self.count_in(LogQueue::Rewrite);
        before == rewritten || before < rewritten && gate.is_none()
    }

    /// Tests whether a change of the list is to be accepted.
    fn accepts(&self, change: Change) -> bool {
        let appended = self.count_in(LogQueue::Append) > 0;
        let rewritten = self.count_in(LogQueue::Rewrite) > 0;
        match change {
            Change::Call(Call::Append(run)) => self.meets_without_hole(run)
                && self.start() <= run.0,
            Change::Call(Call::Replay(LogQueue::Append, run)) => self.meets_without_hole(run),
            Change::Call(Call::Rewrite(run, gate)) => self.can_rewrite(run, gate),
            Change::MergeNewer(LogQueue::Append, run) => !rewritten && self.meets_without_hole(run),
            Change::JoinUnder(LogQueue::Append, bounds, run) => {
                let end = self.end_within(bounds);
                end == 0 || run.0 <= end
            }
            Change::Call(Call::Replay(LogQueue::Rewrite, _))
            | Change::MergeNewer(LogQueue::Rewrite, _)
            | Change::MergeAppended(_)
            | Change::JoinUnder(LogQueue::Rewrite, ..) => !appended,
            Change::Call(_) => true,
        }
    }

    /// Makes a change of the list, one that is accepted.
    ///
    /// # Errors
    ///
    /// `Memory` alone.
    fn make_change(&mut self, change: Change) -> Result<()> {
        match change {
            Change::Call(Call::Append(run)) | Change::MergeAppended(run) => {
                self.put_run(LogQueue::Append, run)
            }
            Change::Call(Call::Replay(queue, run)) | Change::MergeNewer(queue, run) => {
                self.put_run(queue, run)
            }
            Change::JoinUnder(queue, bounds, run) => {
                self.entries.retain(|e| bounds.include(e));
                self.put_run(queue, run)
            }
            Change::Call(Call::Rewrite(run, gate)) => {
                self.move_places(run, gate);
                Ok(())
            }
            Change::Call(Call::Compact(index)) => {
                self.entries.retain(|e| e.index >= index);
                Ok(())
            }
            Change::Call(Call::Truncate(index)) => {
                self.entries.retain(|e| e.index < index);
                Ok(())
            }
            Change::Call(_) => Ok(()),
        }
    }

    /// Puts a run in place of the entries from its start on, or of all entries where it would leave a hole.
    ///
    /// # Errors
    ///
    /// `Memory` alone.
    fn put_run(&mut self, queue: LogQueue, run: Run) -> Result<()> {
        if !self.meets_without_hole(run) {
            self.entries.clear();
        }
        let (first, end, _) = run;
        self.entries.retain(|e| e.index < first);
        for index in first..end {
            self.entries.push(entry_of_run(queue, run, index))?;
        }
        Ok(())
    }

    /// Gives entries the places that a run has for them, up to the first entry that may not move.
    fn move_places(&mut self, run: Run, gate: Option<FileSeq>) {
        for entry in &mut self.entries {
            if run_has_index(run, entry.index) {
                if !can_entry_move(entry, gate) {
                    return;
                }
                *entry = entry_of_run(LogQueue::Rewrite, run, entry.index);
            }
        }
    }
}

/// Tests whether a table has the entries of a list, and the counts are right.
fn has_same_entries(store: &LogStore, list: &List) -> bool {
    (0..32).all(|index| store.table.get_entry(index) == list.get(index))
        && store.stats.live_entries(LogQueue::Append) == list.count_in(LogQueue::Append)
        && store.stats.live_entries(LogQueue::Rewrite) == list.count_in(LogQueue::Rewrite)
}

/// Makes a change of the table, and of the list where that accepts it. Tests whether both accept it or neither does,
/// and both have the same entries then.
///
/// # Errors
///
/// `Memory` alone.
fn change_both_and_compare(
    alloc: Global,
    store: &mut LogStore,
    list: &mut List,
    change: Change,
) -> Result<bool> {
    let accepted = match make_change(alloc, store, change) {
        Err(Error::Memory) => return Err(Error::Memory),
        made => made.is_ok(),
    };
    if accepted != list.accepts(change) {
        return Ok(false);
    }
    if accepted {
        list.make_change(change)?;
    }
    Ok(has_same_entries(store, list))
}

/// Makes `changes` random changes, and returns the first one after which the table and the list differ; `None` where
/// they never do.
///
/// # Errors
///
/// `Memory` alone.
fn find_first_difference(alloc: Global, changes: u32) -> Result<Option<Change>> {
    let mut numbers = Numbers { state: 2024 };
    let mut store = LogStore::new(alloc);
    let mut list = List {
        entries: Vec::new(alloc),
    };
    for _ in 0..changes {
        let change = draw_change(&mut numbers, &list);
        if !change_both_and_compare(alloc, &mut store, &mut list, change)? {
            return Ok(Some(change));
        }
    }
    Ok(None)
}

/// Tests that a table and a plain list accept the same of ten thousand random changes, and have the same entries
/// after each.
#[test]
fn a_table_agrees_with_a_plain_list_after_random_calls(rt: HostRuntime) {
    let fault = again!(find_first_difference(rt.alloc(), 10_000));
    assert!(rt; matches!(fault, Ok(None)), "{fault:?}");
}
