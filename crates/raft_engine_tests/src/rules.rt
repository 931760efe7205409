//! Tests whether the histories end as they say, and how the model of an engine tells damage from torn tails.

use crate::batches::Part::Entries;
use crate::calls::{holds, is_corruption};
use crate::cases::groups::histories_that_miss_a_file;
use crate::cases::rewritings::histories_with_refused_last_step;
use crate::cases::{Case, failures, groups, removals, rewritings};
use crate::engine::Step::{Append, Sync};
use crate::engine::{Engine, Step};
use raft_base::LogQueue;
use raft_records::{Error, Result};
use std::alloc::Global;
use std::process::Abort;

/// Tests whether a history ends as its case says.
///
/// # Errors
///
/// Those of the steps and of reading the files; `Memory`.
fn does_history_end_as_case_says(alloc: Global, case: &Case) -> Result<bool> {
    let mut engine = Engine::new(alloc)?;
    does_history_end_so_in(&mut engine, case)
}

/// Takes the steps of `case`. Tests whether the tables and the files hold what it says.
///
/// # Errors
///
/// Those of the steps and of reading the files; `Memory`.
fn does_history_end_so_in(engine: &mut Engine, case: &Case) -> Result<bool> {
    take_steps(engine, case.steps)?;
    Ok(is_text_kept(engine, case.kept)? && is_text_recovered(engine, case.found)?)
}

/// Takes `steps` one after another.
///
/// # Errors
///
/// That of the first step that fails; no further one is taken then.
fn take_steps(engine: &mut Engine, steps: &[Step]) -> Result<()> {
    for step in steps {
        engine.take_step(step)?;
    }
    Ok(())
}

/// Tests whether the tables of the engine hold `text`.
///
/// # Errors
///
/// `Memory` alone.
fn is_text_kept(engine: &Engine, text: &str) -> Result<bool> {
    Ok(engine.kept_text()?.as_str() == text)
}

/// Tests whether the files of the engine give tables that hold `text`.
///
/// # Errors
///
/// Those of reading the files; `Memory`.
fn is_text_recovered(engine: &Engine, text: &str) -> Result<bool> {
    Ok(engine.recovered_text()?.as_str() == text)
}

/// Takes all steps of a history but the last, which must succeed. Returns what the engine answers to the last one.
///
/// # Errors
///
/// That of a step before the last; `Failed` for no steps; `Memory`. That of the last step is in the result.
fn answer_to_last_step(alloc: Global, steps: &[Step]) -> Result<Result<()>> {
    let Some((last, steps)) = steps.split_last() else {
        return Err(Error::Failed);
    };
    let mut engine = Engine::new(alloc)?;
    take_steps(&mut engine, steps)?;
    Ok(engine.take_step(last))
}

/// Tests whether the last step of a history, and no other, is refused as damage.
///
/// # Errors
///
/// That of any step, unless it is the last one's `Corruption`; `Memory`.
fn is_last_step_refused(alloc: Global, steps: &[Step]) -> Result<bool> {
    is_corruption(answer_to_last_step(alloc, steps)?)
}

/// Tests whether the last step of a history, and no other, finds no file for its entry.
///
/// # Errors
///
/// That of any step, unless it is the last one's `EntryNotFound`; `Memory`.
fn does_last_step_miss_file(alloc: Global, steps: &[Step]) -> Result<bool> {
    is_entry_not_found(answer_to_last_step(alloc, steps)?)
}

/// Tests whether a step finds no file for its entry.
///
/// # Errors
///
/// That of the step, unless it is `EntryNotFound`.
fn is_entry_not_found(answer: Result<()>) -> Result<bool> {
    match answer {
        Ok(()) => Ok(false),
        Err(Error::EntryNotFound) => Ok(true),
        Err(e) => Err(e),
    }
}

/// Asserts that each history of the table named `table` ends as its case says.
fn assert_histories_end_as_cases_say(rt: &impl Abort, alloc: Global, table: &str, cases: &[Case]) {
    for (row, case) in cases.iter().enumerate() {
        assert!(rt;
            holds!(does_history_end_as_case_says(alloc, case)),
            "{table}: row {row}"
        );
    }
}

/// Tests what each history keeps in its tables, and what a restart finds.
#[test]
fn histories_end_as_their_cases_say(rt: HostRuntime) {
    assert_histories_end_as_cases_say(&rt, rt.alloc(), "removals", removals::cases());
    assert_histories_end_as_cases_say(&rt, rt.alloc(), "groups", groups::cases());
    assert_histories_end_as_cases_say(&rt, rt.alloc(), "rewritings", rewritings::cases());
    assert_histories_end_as_cases_say(&rt, rt.alloc(), "failures", failures::cases());
}

/// Tests that a move is refused of entries that were replaced after they were read.
#[test]
fn replaced_entries_are_not_moved(rt: HostRuntime) {
    for (row, steps) in histories_with_refused_last_step().iter().enumerate() {
        assert!(rt;
            holds!(is_last_step_refused(rt.alloc(), steps)),
            "row {row}"
        );
    }
}

/// Tests that an entry can't be read whose file was deleted too early.
#[test]
fn entries_of_deleted_files_are_not_found(rt: HostRuntime) {
    for (row, steps) in histories_that_miss_a_file().iter().enumerate() {
        assert!(rt;
            holds!(does_last_step_miss_file(rt.alloc(), steps)),
            "row {row}"
        );
    }
}

/// Returns an engine that wrote the entries 1 and 2 to append file 1.
///
/// # Errors
///
/// That of the first step that fails; `Memory`.
fn engine_with_two_entries(alloc: Global) -> Result<Engine> {
    let mut engine = Engine::new(alloc)?;
    engine.take_step(&Append(1, &[Entries(1, 3)]))?;
    Ok(engine)
}

/// Tests whether a batch that the table refuses makes a restart refuse the files, if it is written without a test before.
///
/// # Errors
///
/// Those of the steps and of reading the files; `Memory`.
fn does_restart_refuse_untested(alloc: Global) -> Result<bool> {
    let mut engine = engine_with_two_entries(alloc)?;
    does_restart_refuse_untested_in(&mut engine)
}

/// Writes a hole to `engine`: once tested, which is refused, and once not. Tests whether a restart refuses the files
/// then.
///
/// # Errors
///
/// Those of the steps and of reading the files; `Memory`.
fn does_restart_refuse_untested_in(engine: &mut Engine) -> Result<bool> {
    let tested = is_corruption(engine.write_tested(1, &[Entries(4, 6)]))?;
    let found = is_text_recovered(engine, "[1,3)")?;
    let written = is_corruption(engine.take_step(&Append(1, &[Entries(4, 6)])))?;
    Ok(tested && found && written && is_corruption(engine.recovered_text())?)
}

/// Tests whether a torn tail is refused, and what stands before it is found once the tail is cut off.
///
/// # Errors
///
/// Those of the steps and of reading the files; `Memory`.
fn is_prefix_found_once_cut(alloc: Global) -> Result<bool> {
    let mut engine = engine_with_two_entries(alloc)?;
    is_prefix_found_once_cut_in(&mut engine)
}

/// Tears the last batch of `engine` off. Tests whether a restart refuses the file, and finds its prefix once the tail
/// is cut off.
///
/// # Errors
///
/// Those of the steps and of reading the files; `Memory`.
fn is_prefix_found_once_cut_in(engine: &mut Engine) -> Result<bool> {
    engine.take_step(&Append(1, &[Entries(3, 4)]))?;
    engine.drop_last_byte();
    let torn = is_corruption(engine.recovered_text())?;
    engine.cut_tail()?;
    Ok(torn && is_text_recovered(engine, "[1,3)")?)
}

/// Tests whether a changed byte of an entry is found when the entry is read, and not before.
///
/// # Errors
///
/// Those of the steps and of reading the files; `Memory`.
fn is_changed_byte_found_on_read(alloc: Global) -> Result<bool> {
    let mut engine = engine_with_two_entries(alloc)?;
    is_changed_byte_found_on_read_in(&mut engine)
}

/// Changes a byte of an entry. Tests whether a restart passes it, and a read of the entry refuses it.
///
/// # Errors
///
/// Those of the steps and of reading the files; `Memory`.
fn is_changed_byte_found_on_read_in(engine: &mut Engine) -> Result<bool> {
    let read = engine.read_entry_bytes(1)?.as_slice() == b"x".as_slice();
    engine.flip_bit(16);
    let found = is_text_recovered(engine, "[1,3)")?;
    Ok(read && found && is_corruption(engine.read_entry_bytes(1))?)
}

/// Tests whether a torn batch is cut off, though the bytes of its entry are a batch that can be read.
///
/// # Errors
///
/// Those of the steps and of reading the files; `Memory`.
fn is_torn_batch_with_batch_in_entry_cut(alloc: Global) -> Result<bool> {
    let mut engine = engine_with_two_entries(alloc)?;
    is_torn_batch_with_batch_in_entry_cut_in(&mut engine)
}

/// Writes a batch whose entry's bytes are a batch, and tears it. Tests whether it is cut off.
///
/// # Errors
///
/// Those of the steps and of reading the files; `Memory`.
fn is_torn_batch_with_batch_in_entry_cut_in(engine: &mut Engine) -> Result<bool> {
    engine.append_batch_in_entry(3)?;
    let whole = is_text_recovered(engine, "[1,4)")?;
    engine.drop_last_byte();
    let later = engine.has_batch_later()?;
    engine.cut_tail()?;
    Ok(whole && later && is_text_recovered(engine, "[1,3)")?)
}

/// Tests whether nothing is cut off if the first of two batches can't be read, since a byte of its items is changed.
///
/// # Errors
///
/// Those of the steps and of reading the files; `Memory`.
fn is_nothing_cut_if_damaged(alloc: Global) -> Result<bool> {
    let mut engine = engine_with_two_entries(alloc)?;
    is_nothing_cut_if_damaged_in(&mut engine)
}

/// Changes a byte of the first of two batches. Tests whether the file is refused, and nothing cut off.
///
/// # Errors
///
/// Those of the steps and of reading the files; `Memory`.
fn is_nothing_cut_if_damaged_in(engine: &mut Engine) -> Result<bool> {
    engine.take_step(&Append(1, &[Entries(3, 4)]))?;
    let whole = is_text_recovered(engine, "[1,4)")?;
    engine.flip_bit(24);
    let cut = is_corruption(engine.cut_tail())?;
    let refused = is_corruption(engine.recovered_text())?;
    engine.flip_bit(24);
    Ok(whole && cut && refused && is_text_recovered(engine, "[1,4)")?)
}

/// The number of bytes before the entries of a batch.
const HEADER: usize = 16;

/// Returns an engine that wrote the entries 1 and 2, which are synced, and then 3 and 4, each in a batch that isn't; and the
/// offsets of these two batches.
///
/// # Errors
///
/// That of the first step that fails; `Memory`.
fn engine_with_unsynced_batches(alloc: Global) -> Result<(Engine, usize, usize)> {
    let mut engine = engine_with_two_entries(alloc)?;
    let (first, second) = write_unsynced_batches(&mut engine)?;
    Ok((engine, first, second))
}

/// Syncs `engine`, and writes two batches that aren't synced. Returns the offset of each.
///
/// # Errors
///
/// That of the first step that fails; `Memory`.
fn write_unsynced_batches(engine: &mut Engine) -> Result<(usize, usize)> {
    engine.take_step(&Sync(LogQueue::Append))?;
    let first = engine.last_file_len();
    engine.take_step(&Append(1, &[Entries(3, 4)]))?;
    let second = engine.last_file_len();
    engine.take_step(&Append(1, &[Entries(4, 5)]))?;
    Ok((first, second))
}

/// Tests whether nothing is cut off if a power failure loses a page of the first of two unsynced batches and leaves the
/// second: what is left is no prefix.
///
/// # Errors
///
/// Those of the steps and of reading the files; `Memory`.
fn is_hole_left_uncut(alloc: Global) -> Result<bool> {
    let (mut engine, first, second) = engine_with_unsynced_batches(alloc)?;
    engine.lose_page(first.saturating_add(HEADER), second);
    is_cut_refused(&mut engine)
}

/// Tests whether a cut of the last file is refused, and leaves the file as it was.
///
/// # Errors
///
/// That of the cut or of reading the files, unless it is `Corruption`; `Memory`.
fn is_cut_refused(engine: &mut Engine) -> Result<bool> {
    let len = engine.last_file_len();
    let cut = is_corruption(engine.cut_tail())?;
    Ok(cut && engine.last_file_len() == len && is_corruption(engine.recovered_text())?)
}

/// Tests whether what was synced is found if the lost page has the header of the first unsynced batch too: nothing says then
/// where the second one begins.
///
/// # Errors
///
/// Those of the steps and of reading the files; `Memory`.
fn is_synced_found_without_header(alloc: Global) -> Result<bool> {
    let (mut engine, first, second) = engine_with_unsynced_batches(alloc)?;
    engine.lose_page(first, second);
    does_cut_leave_len_and_text(&mut engine, first, "[1,3)")
}

/// Cuts the tail off the last file. Tests whether `len` bytes are left, and the files then give `text`.
///
/// # Errors
///
/// Those of the cut and of reading the files; `Memory`.
fn does_cut_leave_len_and_text(engine: &mut Engine, len: usize, text: &str) -> Result<bool> {
    engine.cut_tail()?;
    Ok(engine.last_file_len() == len && is_text_recovered(engine, text)?)
}

/// Cuts the tail off the last file. Tests whether the files then give `text`.
///
/// # Errors
///
/// Those of the cut and of reading the files; `Memory`.
fn does_cut_leave_text(engine: &mut Engine, text: &str) -> Result<bool> {
    engine.cut_tail()?;
    is_text_recovered(engine, text)
}

/// Tests whether each prefix of the file, from the first unsynced batch on, can be opened, and gives the batches that are
/// whole in it.
///
/// # Errors
///
/// Those of the steps and of reading the files; `Memory`.
fn are_unsynced_prefixes_opened(alloc: Global) -> Result<bool> {
    let (first, second, len) = offsets_of_unsynced_batches(alloc)?;
    for end in first..=len {
        let found = if end < second {
            "[1,3)"
        } else if end < len {
            "[1,4)"
        } else {
            "[1,5)"
        };
        if !is_prefix_opened(alloc, end, found)? {
            return Ok(false);
        }
    }
    Ok(true)
}

/// Returns the offsets of the two unsynced batches, and the length of the file.
///
/// # Errors
///
/// That of the first step that fails; `Memory`.
fn offsets_of_unsynced_batches(alloc: Global) -> Result<(usize, usize, usize)> {
    let (engine, first, second) = engine_with_unsynced_batches(alloc)?;
    Ok((first, second, engine.last_file_len()))
}

/// Tests whether the first `end` bytes of the file, once their torn tail is cut off, give `found`.
///
/// # Errors
///
/// Those of the steps and of reading the files; `Memory`.
fn is_prefix_opened(alloc: Global, end: usize, found: &str) -> Result<bool> {
    let (mut engine, _, _) = engine_with_unsynced_batches(alloc)?;
    engine.drop_bytes_from(end);
    does_cut_leave_text(&mut engine, found)
}

/// Tests whether the batches before the last one are found if a page of the last one is lost.
///
/// # Errors
///
/// Those of the steps and of reading the files; `Memory`.
fn is_synced_found_without_page(alloc: Global) -> Result<bool> {
    let (mut engine, _, second) = engine_with_unsynced_batches(alloc)?;
    let len = engine.last_file_len();
    engine.lose_page(second.saturating_add(HEADER), len);
    does_cut_leave_text(&mut engine, "[1,4)")
}

/// Tests that a hole and a torn tail are found by restarts, and a changed byte of an entry by a read.
#[test]
fn damage_is_found_by_restarts_and_reads(rt: HostRuntime) {
    let alloc = rt.alloc();
    assert!(rt; holds!(does_restart_refuse_untested(alloc)));
    assert!(rt; holds!(is_prefix_found_once_cut(alloc)));
    assert!(rt; holds!(is_changed_byte_found_on_read(alloc)));
}

/// Tests that a torn batch is cut off, and a damaged one before a whole one isn't.
#[test]
fn torn_tails_are_told_from_damage(rt: HostRuntime) {
    let alloc = rt.alloc();
    assert!(rt; holds!(is_torn_batch_with_batch_in_entry_cut(alloc)));
    assert!(rt; holds!(is_nothing_cut_if_damaged(alloc)));
}

/// Tests what is left of two unsynced batches: prefixes are opened, a lost page between them is refused.
#[test]
fn prefixes_are_opened_and_holes_refused(rt: HostRuntime) {
    let alloc = rt.alloc();
    assert!(rt; holds!(is_hole_left_uncut(alloc)));
    assert!(rt; holds!(is_synced_found_without_header(alloc)));
    assert!(rt; holds!(are_unsynced_prefixes_opened(alloc)));
    assert!(rt; holds!(is_synced_found_without_page(alloc)));
}
