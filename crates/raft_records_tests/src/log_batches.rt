//! Tests batches of items and entry bytes, as the Rust crate makes them.

ghost use Rattle.std.specs.Prelude.{◌≡◌, [], IfOk};
ghost use Rattle.raft_records.specs.LogBatch.{is_open};

mod rows;
mod written;

use crate::item_batches::entry_with_index;
use raft_records::{
    AtomicGroupBuilder, AtomicGroupStatus, Command, Error, FileBlockHandle, FileId, LogBatch,
    LogFileContext, LogItemBatch, LogQueue, Message, MessageError, MessageExt, ReactiveBytes,
    Result, Version, is_consecutive,
};
use raft_trials::again;
use rows::Row;
use std::alloc::Global;
use std::process::Abort;

/// A line of a log. It can't be encoded where it has no text.
#[derive(Clone, Copy, PartialEq)]
struct Line {
    index: u64,
    text: &'static [u8],
}

impl Message for Line {
    ghost bytes_of = { λ line. line.text.now };

    ghost refuses = { λ line code. (line.text.now ≡ []) × (code ≡ 7) };

    /// Appends the text of the line to `buf`.
    ///
    /// # Errors
    ///
    /// `Refused(7)` for a line without text; `Memory`. `buf` is unchanged then.
    fn write_to_vec(&self, buf: &mut Vec<u8>) -> std::result::Result<(), MessageError> {
        if self.text.is_empty() {
            return Err(MessageError::Refused(7));
        }
        match buf.extend_from_slice(self.text) {
            Ok(()) => Ok(()),
            Err(_) => Err(MessageError::Memory),
        }
    }
}

/// The type of entries that are lines.
struct Lines;

impl MessageExt for Lines {
    type Entry = Line;

    ghost index_of = { λ line. line.index };

    /// Returns the index of `line` in its log.
    fn index(line: &Line) -> u64 {
        line.index
    }
}

/// Returns a line with an index.
const fn line_at(index: u64, text: &'static [u8]) -> Line {
    Line { index, text }
}

/// Returns a batch with a command for a region. Errors: those of the batch's calls; `Memory`.
fn batch_with_command(alloc: Global, region_id: u64, command: Command) -> Result<LogBatch> {
    let mut batch = LogBatch::default(alloc);
    batch.add_command(region_id, command)?;
    Ok(batch)
}

/// Returns a batch with a put and a delete. Errors: those of the batch's calls; `Memory`.
fn batch_with_key_values(alloc: Global) -> Result<LogBatch> {
    let mut batch = LogBatch::with_capacity(alloc, 2)?;
    let key = Vec::from_slice(alloc, b"put")?;
    batch.put_message(1, key, &line_at(0, b"put_v"))?;
    batch.delete(1, Vec::new(alloc))?;
    Ok(batch)
}

/// Returns a batch with lines as the entries of a region. Errors: those of the batch's calls; `Memory`.
fn batch_with_lines(alloc: Global, region_id: u64, lines: &[Line]) -> Result<LogBatch>
    ensures { IfOk result (λ batch. batch.stage ≡ is_open) }
{
    let mut batch = LogBatch::default(alloc);
    batch.add_entries::<Lines>(region_id, lines)?;
    Ok(batch)
}

/// Returns a batch with three entries, of which one has no bytes. Errors: those of the batch's calls; `Memory`.
fn batch_with_raw_entries(alloc: Global) -> Result<LogBatch>
    ensures { IfOk result (λ batch. batch.stage ≡ is_open) }
{
    let mut batch = LogBatch::default(alloc);
    let indexes = Vec::from_slice(
        alloc,
        &[
            entry_with_index(10),
            entry_with_index(11),
            entry_with_index(12),
        ],
    )?;
    let texts = vec![in alloc;
        Vec::from_slice(alloc, b"ab")?,
        Vec::new(alloc),
        Vec::from_slice(alloc, b"c")?,
    ]?;
    batch.add_raw_entries(7, indexes, texts)?;
    Ok(batch)
}

/// Returns a batch with three entries, and one item of each other kind. Errors: those of the batch's calls; `Memory`.
fn batch_with_each_kind_of_item(alloc: Global) -> Result<LogBatch>
    ensures { IfOk result (λ batch. batch.stage ≡ is_open) }
{
    let mut batch = batch_with_raw_entries(alloc)?;
    batch.add_command(8, Command::Clean)?;
    batch.add_command(7, Command::Compact { index: 11 })?;
    batch.put(
        9,
        Vec::from_slice(alloc, b"k")?,
        Vec::from_slice(alloc, b"v")?,
    )?;
    batch.delete(9, Vec::from_slice(alloc, b"j")?)?;
    AtomicGroupBuilder::with_id(9).begin(&mut batch)?;
    Ok(batch)
}

/// Returns three entries of region 7, and two of region 8 in a batch that was merged after theirs. Errors: those of the
/// batch's calls; `Memory`.
fn batch_after_merge(alloc: Global) -> Result<LogBatch> {
    let mut batch = LogBatch::default(alloc);
    let first = [line_at(10, b"x"), line_at(11, b"x"), line_at(12, b"x")];
    batch.merge(&mut batch_with_lines(alloc, 7, &first)?)?;
    let second = [line_at(1, b"x"), line_at(2, b"x")];
    batch.merge(&mut batch_with_lines(alloc, 8, &second)?)?;
    Ok(batch)
}

/// Returns a batch with a group marker of this status. Errors: those of the builder's calls; `Memory`.
fn batch_with_marker(alloc: Global, status: AtomicGroupStatus) -> Result<LogBatch> {
    let mut builder = AtomicGroupBuilder::with_id(9);
    let mut batch = LogBatch::default(alloc);
    builder.begin(&mut batch)?;
    if status == AtomicGroupStatus::Begin {
        return Ok(batch);
    }
    let mut next = LogBatch::default(alloc);
    match status {
        AtomicGroupStatus::Middle => builder.add(&mut next)?,
        _ => builder.end(&mut next)?,
    }
    Ok(next)
}

/// Returns append file `seq` in a version.
fn append_file_context(seq: u64, version: Version) -> LogFileContext {
    LogFileContext::new(FileId::new(LogQueue::Append, seq), version)
}

/// Tests whether a value has these bytes in append file `seq` of a version: `front`, and then `seal`.
fn has_bytes_in_file<T: ReactiveBytes>(
    value: &mut T,
    seq: u64,
    version: Version,
    front: &[u8],
    seal: &[u8],
) -> bool {
    if !value.ready() {
        return false;
    }
    let bytes = value.as_bytes(&append_file_context(seq, version));
    bytes.len() == front.len() + seal.len() && bytes.starts_with(front) && bytes.ends_with(seal)
}

/// Reads a batch back from its bytes in a file. Returns where its items begin, its entry bytes, and its items, or the
/// error with which they can't be read; `None` where its header doesn't fit the bytes. Errors: those of reading the
/// header and the block. That of reading the items is in the result.
fn read_back(
    alloc: Global,
    bytes: &[u8],
    context: &LogFileContext,
) -> Result<Option<(usize, Vec<u8>, Result<LogItemBatch>)>> {
    let mut behind = bytes;
    let (offset, compression_type, len) = LogBatch::decode_header(alloc, &mut behind)?;
    if offset > len || len != bytes.len() {
        return Ok(None);
    }
    let place = FileBlockHandle {
        id: context.id,
        offset: 16,
        len: offset.saturating_sub(16),
    };
    let entries = LogBatch::decode_entries_block(alloc, behind, place, compression_type)?;
    let mut item_batch = &bytes[offset..];
    let items = LogItemBatch::decode(alloc, &mut item_batch, place, compression_type, context);
    Ok(Some((offset, entries, items)))
}

/// Tests whether a signed batch's header, entry bytes and item batch are read, as the row says, in the file that it is
/// signed for. Errors: those of reading the batch.
fn is_read_as_row_says(
    alloc: Global,
    batch: &LogBatch,
    context: &LogFileContext,
    row: &Row,
) -> Result<bool> {
    if !batch.is_sealed() {
        return Ok(false);
    }
    let bytes = batch.encoded_bytes();
    if bytes.is_empty() {
        return Ok(row.front.is_empty());
    }
    let Some((offset, entries, items)) = read_back(alloc, bytes, context)? else {
        return Ok(false);
    };
    Ok(
        offset == row.offset
            && entries.as_slice() == row.entry_bytes
            && items?.approximate_size() == row.item_batch_size,
    )
}

/// Tests whether an open batch has the size of a row, and then its bytes in five files, from which it is read back.
/// Errors: those of making the bytes and of reading them.
fn is_row_made_and_read(alloc: Global, batch: &mut LogBatch, row: &Row) -> Result<bool> {
    if batch.ready() || !batch.is_open() || batch.approximate_size() != row.size {
        return Ok(false);
    }
    let len = batch.finish_populate()?;
    let mut same = batch.approximate_size() == len
        && len.checked_sub(row.front.len()) == Some(row.seals[0].len());
    for &(seal, seq, version) in &[
        (row.seals[0], 12, Version::V1),
        (row.seals[1], 12, Version::V2),
        (row.seals[2], 13, Version::V2),
        (row.seals[1], 0x1_0000_000c, Version::V2),
        (row.seals[3], u64::MAX, Version::V2),
    ] {
        same &= has_bytes_in_file(batch, seq, version, row.front, seal);
        same &= is_read_as_row_says(alloc, batch, &append_file_context(seq, version), row)?;
    }
    Ok(same && batch.is_sealed())
}

/// Tests that the batch of each row has its size and its bytes in five files, and is read back from them.
#[test]
fn batches_are_made_and_read_as_in_the_rows(rt: HostRuntime) {
    assert!(rt; again!(check_each_log_batch_row(&rt, rt.alloc())).is_ok());
}

/// Asserts that the batch of each row is made and read as [`is_row_made_and_read`] tests. Errors: those of making the
/// batches and of reading them; `Memory`.
fn check_each_log_batch_row(rt: &impl Abort, alloc: Global) -> Result<()> {
    for (number, row) in rows::log_batch_rows().iter().enumerate() {
        let mut batch = open_batch_of_row(alloc, number)?;
        assert!(rt; is_row_made_and_read(alloc, &mut batch, row)?, "{number}");
    }
    Ok(())
}

/// Returns the open batch of the row at position `number`. Errors: those of the batch's calls; `Memory`.
fn open_batch_of_row(alloc: Global, number: usize) -> Result<LogBatch> {
    match number {
        0 => Ok(LogBatch::default(alloc)),
        1 => batch_with_command(alloc, 1, Command::Clean),
        2 => batch_with_command(alloc, 300, Command::Compact { index: 1 << 40 }),
        3 => batch_with_command(alloc, 300, Command::Truncate { index: 1 << 40 }),
        4 => batch_with_key_values(alloc),
        5 => batch_with_lines(alloc, 7, &[line_at(10, b"ab"), line_at(11, b"c")]),
        6 => batch_after_merge(alloc),
        7 => batch_with_each_kind_of_item(alloc),
        8 => batch_with_marker(alloc, AtomicGroupStatus::Begin),
        9 => batch_with_marker(alloc, AtomicGroupStatus::Middle),
        _ => batch_with_marker(alloc, AtomicGroupStatus::End),
    }
}

/// Returns why a call was refused, in a word; an empty text where it wasn't. Errors: `Memory`, if the call returned that.
fn refusal_of(called: Result<()>) -> Result<&'static str> {
    match called {
        Ok(()) => Ok(""),
        Err(Error::InvalidArgument(_text)) => Ok("invalid argument"),
        Err(Error::Message(MessageError::Refused(7))) => Ok("message"),
        Err(Error::Memory) => Err(Error::Memory),
        Err(_) => Ok("other"),
    }
}

/// Adds an empty list of entries, given as bytes, to an open batch. Errors: `Failed` if the batch isn't open; `Memory`.
fn add_no_entries(alloc: Global, batch: &mut LogBatch) -> Result<()> {
    let (indexes, texts) = (Vec::new(alloc), Vec::new(alloc));
    if !batch.is_open() || indexes.len() != texts.len() || !is_consecutive(&indexes) {
        return Err(Error::Failed);
    }
    batch.add_raw_entries(1, indexes, texts)
}

/// Makes the call with a number, one of ten, of which the last four aren't refused. Errors: those of the call.
fn make_numbered_call(alloc: Global, batch: &mut LogBatch, number: usize) -> Result<()> {
    if !batch.is_open() {
        return Ok(());
    }
    let last = u64::MAX;
    match number {
        0 => batch.add_entries::<Lines>(1, &[line_at(10, b"a"), line_at(12, b"b")]),
        1 => batch.add_entries::<Lines>(1, &[line_at(last, b"a")]),
        2 => batch.add_entries::<Lines>(1, &[line_at(10, b"a"), line_at(11, b"")]),
        3 => batch.put(0, Vec::from_slice(alloc, b"__\x01")?, Vec::new(alloc)),
        4 => batch.put_message(1, Vec::from_slice(alloc, b"__\x01")?, &line_at(0, b"a")),
        5 => batch.put_message(1, Vec::from_slice(alloc, b"a")?, &line_at(0, b"")),
        6 => batch.add_entries::<Lines>(1, &[]),
        7 => batch.put(0, Vec::from_slice(alloc, b"__\x00")?, Vec::new(alloc)),
        8 => add_no_entries(alloc, batch),
        _ => batch.delete(0, Vec::from_slice(alloc, b"__\x01")?),
    }
}

/// Tests for each addition to a batch why it is refused, if it is, and that a refused one leaves the batch as it was.
#[test]
fn refused_additions_leave_the_batch_unchanged(rt: HostRuntime) {
    assert!(rt; again!(check_each_refused_addition(&rt, rt.alloc())).is_ok());
}

/// Tests whether the call with a number, on a batch with a command, is refused for `refusal` and leaves the batch as it
/// was; or isn't refused, if `refusal` is empty. Errors: `Memory`.
fn is_refused_and_left(alloc: Global, number: usize, refusal: &str) -> Result<bool> {
    let mut batch = batch_with_command(alloc, 8, Command::Clean)?;
    let before = batch.clone()?;
    let called = make_numbered_call(alloc, &mut batch, number);
    let is_left = batch == before && batch.items() == before.items();
    Ok(refusal_of(called)? == refusal && (refusal.is_empty() || is_left))
}

/// Asserts for each addition why it is refused, if it is, and which size the batch has then. Errors: `Memory`.
fn check_each_refused_addition(rt: &impl Abort, alloc: Global) -> Result<()> {
    for &(number, refusal, size) in &[
        (0, "invalid argument", 0),
        (1, "invalid argument", 0),
        (2, "message", 0),
        (3, "invalid argument", 0),
        (4, "invalid argument", 0),
        (5, "message", 0),
        (6, "", 0),
        (7, "", 61),
        (8, "", 0),
        (9, "", 61),
    ] {
        let mut batch = LogBatch::default(alloc);
        let called = make_numbered_call(alloc, &mut batch, number);
        assert!(rt; refusal_of(called)? == refusal, "of call {number}");
        assert!(rt;
            batch.is_open() && batch.approximate_size() == size,
            "after {number}"
        );
        assert!(rt; is_refused_and_left(alloc, number, refusal)?, "by {number}");
    }
    Ok(())
}

/// Tests whether a batch whose bytes in a file are asked for is then equal to its clone that was signed for the same
/// file. Errors: those of the batch's calls; `Memory`.
fn is_only_signed_by_asking_for_bytes(alloc: Global) -> Result<bool> {
    let mut batch = batch_with_each_kind_of_item(alloc)?;
    batch.finish_populate()?;
    let mut signed = batch.clone()?;
    if signed.is_open() || !batch.ready() {
        return Ok(false);
    }
    signed.prepare_write(&append_file_context(12, Version::V2));
    let len = batch.as_bytes(&append_file_context(12, Version::V2)).len();
    if !batch.is_sealed() || !signed.is_sealed() {
        return Ok(false);
    }
    Ok(
        batch == signed
            && batch.encoded_bytes() == signed.encoded_bytes()
            && batch.encoded_bytes().len() == len,
    )
}

/// Tests that asking a batch for its bytes in a file does no more than signing it for that file.
#[test]
fn asking_for_bytes_only_signs_the_batch(rt: HostRuntime) {
    assert!(rt;
        matches!(
            again!(is_only_signed_by_asking_for_bytes(rt.alloc())),
            Ok(true)
        )
    );
}

/// The bytes, in file 12, of a batch that cleans region 8.
const BEFORE: &[u8] =
    b"\x00\x00\x00\x00\x00\x00\x18\x00\x00\x00\x00\x00\x00\x00\x00\x10\x01\x08\x02\x01\xd9\xbb\xda\xd2";

/// The bytes, in file 12, of that batch with the entries 10 and 11 of region 7 behind the `Clean`.
const BEHIND: &[u8] =
    b"\x00\x00\x00\x00\x00\x00\x25\x00\x00\x00\x00\x00\x00\x00\x00\x17\x61\x62\x63\xc2\x41\x24\x35\x02\x08\x02\x01\x07\x01\x02\x0a\x02\x03\xfb\x71\x31\x94";

/// Tests whether an open batch has this size, and whether a copy of it has these bytes in file 12. Errors: those of the
/// batch's calls; `Memory`.
fn has_size_and_bytes(batch: &LogBatch, size: usize, bytes: &[u8]) -> Result<bool> {
    let mut copy = batch.clone()?;
    if !copy.is_open() || copy.approximate_size() != size {
        return Ok(false);
    }
    let len = copy.finish_populate()?;
    if !copy.ready() {
        return Ok(false);
    }
    Ok(len == bytes.len() && copy.as_bytes(&append_file_context(12, Version::V2)) == bytes)
}

/// Tests whether a list whose second line can't be encoded is refused, and leaves an open batch with its items as it
/// was. Errors: `Memory`.
fn is_left_unchanged_by_refusal(batch: &mut LogBatch) -> Result<bool> {
    let before = batch.clone()?;
    if !batch.is_open() {
        return Ok(false);
    }
    let called = batch.add_entries::<Lines>(7, &[line_at(10, b"a"), line_at(11, b"")]);
    let is_refused = refusal_of(called)? == "message";
    Ok(is_refused && *batch == before && batch.items() == before.items())
}

/// Tests whether a batch has the bytes that it had before, after a list that was refused; and after the next list those
/// that it would have without the refusal. An empty list then adds nothing. Errors: those of the batch's calls; `Memory`.
fn takes_items_after_refusal(alloc: Global) -> Result<bool> {
    let mut batch = LogBatch::default(alloc);
    batch.add_command(8, Command::Clean)?;
    if !is_left_unchanged_by_refusal(&mut batch)?
        || !has_size_and_bytes(&batch, 42, BEFORE)?
        || !batch.is_open()
    {
        return Ok(false);
    }
    batch.add_entries::<Lines>(7, &[line_at(10, b"ab"), line_at(11, b"c")])?;
    add_no_entries(alloc, &mut batch)?;
    has_size_and_bytes(&batch, 86, BEHIND)
}

/// Tests that a list with a message that can't be encoded leaves the batch as it was, and that the batch goes on.
#[test]
fn refused_messages_leave_the_batch_unchanged(rt: HostRuntime) {
    assert!(rt; matches!(again!(takes_items_after_refusal(rt.alloc())), Ok(true)));
}

/// Tests whether the builder of a group has the status of the last group marker that it has added. Errors: those of the
/// batch's calls; `Memory`.
fn has_status_after_each_marker(alloc: Global) -> Result<bool> {
    let mut builder = AtomicGroupBuilder::with_id(9);
    let mut batch = LogBatch::default(alloc);
    let is_new = builder.state().is_none();
    builder.begin(&mut batch)?;
    let has_begun = builder.state() == Some(AtomicGroupStatus::Begin);
    builder.add(&mut batch)?;
    let goes_on = builder.state() == Some(AtomicGroupStatus::Middle);
    builder.end(&mut batch)?;
    let has_ended = builder.state() == Some(AtomicGroupStatus::End);
    Ok(is_new && has_begun && goes_on && has_ended && batch.items().len() == 3)
}

/// Tests that the builder of a group has the status of the last group marker that it added.
#[test]
fn a_group_builder_has_the_status_of_its_last_marker(rt: HostRuntime) {
    assert!(rt; matches!(again!(has_status_after_each_marker(rt.alloc())), Ok(true)));
}

/// Tests whether clones of item batches are equal to what they are made of, until an item is added to them. Errors:
/// `Memory`.
fn are_item_batch_clones_equal(alloc: Global) -> Result<bool> {
    let mut items = LogItemBatch::default(alloc);
    items.delete(1, Vec::new(alloc))?;
    let mut more = items.clone()?;
    let same = more == items;
    more.delete(1, Vec::new(alloc))?;
    Ok(same && more != items)
}

/// Tests whether clones of log batches are equal to what they are made of, until the bytes of one are made. Errors: those
/// of the batch's calls; `Memory`.
fn are_log_batch_clones_equal(alloc: Global) -> Result<bool> {
    let mut batch = LogBatch::default(alloc);
    AtomicGroupBuilder::with_id(9).begin(&mut batch)?;
    let mut copy = batch.clone()?;
    let same = copy == batch;
    copy.finish_populate()?;
    Ok(same && copy != batch)
}

/// Tests whether clones of item batches and of log batches are equal until one changes. Errors: the batches', `Memory`.
fn are_all_clones_equal(alloc: Global) -> Result<bool> {
    Ok(are_item_batch_clones_equal(alloc)? && are_log_batch_clones_equal(alloc)?)
}

/// Tests that clones of item batches and log batches are equal to what they are made of, until one of them is
/// changed.
#[test]
fn clones_are_equal_until_one_changes(rt: HostRuntime) {
    assert!(rt; matches!(again!(are_all_clones_equal(rt.alloc())), Ok(true)));
}
