//! Lists of items, those of a batch that was read or written, and the exported calls that read them.

ghost use Rattle.std.specs.Prelude.{◌≡◌, map, length, IfOk, IfErr, ◌≢◌, ◌+◌, ◌^◌, ◌<◌, ◌≤◌, IsTrue, OnOk, OnErr, None, is_some, drop, slice_get, option_map};
ghost use Rattle.raft_ffi.specs.Words.{into_iter_items, into_iter_len, item_of, content_of, signature_of, IsNext, IsNextFault, part_of, file_of, IsCodeOf, next_shown, IsFound, IsRead, IsMemoryOr, IsHeadOf, kind_of, number_of, entries_at};
ghost use Rattle.raft_ffi.specs.Words.{key_at, value_at, AreEntriesIn, IsCopiedIfAny, HasText};

use crate::entries::{Entry, copy_entries};
use crate::handles::{Handle, Items, with_value};
use crate::status::{File, Status, copy_found, status_of};
use raft_base::{EntryIndex, Error, LogFileContext, Result};
use raft_records::{Command, LogBatch, LogItem, LogItemContent, OpType, next_in};
use std::alloc::Global;
use std::marker::Model;
use std::vec;

/// The items of a batch that was read or written, in order.
#[derive(Drop)]
pub struct ItemList {
    /// The items.
    items: Vec<LogItem>,
}

impl Model for ItemList {
    ghost use Rattle.std.specs.Prelude.{List};
    ghost use Rattle.raft_records.specs.Item.{Item};

    ghost Value = { List Item };

    ghost use Rattle.raft_ffi.specs.ItemListView.{items_in};

    ghost view = { items_in };
}

impl ItemList {
    /// Makes a list of items.
    pub(crate) fn of_items(items: Vec<LogItem>) -> ItemList
        ensures { result ≡ map item_of items.items }
    {
        ItemList { items }
    }

    /// Returns the items, in order.
    pub(crate) fn as_slice(&self) -> &[LogItem]
        ensures { map item_of result.now ≡ self.now }
    {
        self.items.as_slice()
    }

    /// Returns the items one after another, in order.
    pub(crate) fn into_items(self) -> vec::IntoIter<LogItem>
        ensures items { map item_of (into_iter_items result) ≡ self }
        ensures len { into_iter_len result ≡ length self }
    {
        let ItemList { items } = self;
        items.into_iter()
    }
}

/// Takes the items out of a batch, in order.
///
/// # Errors
///
/// `Memory` alone. They are lost then.
pub(crate) fn take_items(alloc: Global, mut batch: LogBatch) -> Result<ItemList>
    ensures ok { IfOk result (λ list. list ≡ batch.items) }
    ensures memory { IfErr result (λ e. e ≡ Error.Memory) }
{
    let mut items = Vec::with_capacity(alloc, batch.items().len())?;
    for item in batch.drain() {
        items.push(item)?;
    }
    Ok(ItemList::of_items(items))
}

/// What an item says, without its entries, its key and its value.
#[repr(C)]
#[derive(Clone, Copy)]
pub struct ItemHead {
    /// The region that it is about.
    pub region: u64,
    /// How many entries there are, or the index of a command; 0 for other kinds, and for a clean.
    pub number: u64,
    /// 0: entries, 1: clean, 2: compact, 3: truncate, 4: put, 5: delete.
    pub kind: u32,
}

/// Reads the items of the log batch at position `at` of `bytes` into `items`, which is empty before, and sets `next` to the
/// position where the next batch begins; `bytes` stand in `file` from `offset` on. If `at` is the end of `bytes`, `items`
/// stays empty and `next` isn't set. The code is 0, or that of the error for a batch that can't be read, or 11 (`Memory`):
/// `items` stays empty then.
#[unsafe(no_mangle)]
pub extern "C" fn raft_ffi_items_next(
    alloc: Global,
    items: &mut Items,
    file: File,
    offset: u64,
    bytes: &[u8],
    at: usize,
    next: &mut usize,
    text: &mut [u8],
) -> Status
    requires empty { items.old.value ≡ None }
    requires inside { at ≤ length bytes.now }
    requires ends { offset + length bytes.now < 2 ^ 64 }
    ensures ok { result.code ≡ 0 → IsNext (part_of (file_of file) offset bytes.now) at (next_shown items.new.value next.new) }
    ensures err { result.code ≢ 0 → items.new.value ≡ None }
    ensures fault { result.code ≢ 0 → IsCodeOf
        (IsMemoryOr (IsNextFault (signature_of (file_of file)) (drop at bytes.now))) result.code }
    ensures text { HasText result text.old text.new }
{
    let answer = read_next_items(alloc, items, &file.to_context(), offset, bytes, at, next);
    status_of(alloc, &answer, text)
}

/// Reads the items of the log batch at position `at` of `bytes` into `items`, which is empty before, and sets `next` to the
/// position where the next batch begins. At the end of `bytes` nothing is changed.
///
/// # Errors
///
/// Those of [`next_in`]; `Memory`. `items` stays empty then, and `next` isn't set.
fn read_next_items(
    alloc: Global,
    items: &mut Items,
    file: &LogFileContext,
    offset: u64,
    bytes: &[u8],
    at: usize,
    next: &mut usize,
) -> Result<()>
    requires empty { items.old.value ≡ None }
    requires inside { at ≤ length bytes.now }
    requires ends { offset + length bytes.now < 2 ^ 64 }
    ensures ok { OnOk result (IsNext (part_of file.now offset bytes.now) at (next_shown items.new.value next.new)) }
    ensures err { OnErr result (items.new.value ≡ None) }
    ensures fault { IfErr result (IsMemoryOr (IsNextFault (signature_of file.now) (drop at bytes.now))) }
{
    if let Some((batch, behind)) = next_in(alloc, file, offset, bytes, at)? {
        items.put_new(alloc, ItemList::of_items(batch.into_items()))?;
        *next = behind;
    }
    Ok(())
}

/// Returns how many items there are.
#[unsafe(no_mangle)]
pub extern "C" fn raft_ffi_items_len(alloc: Global, items: &mut Items) -> usize
    requires held { IsTrue (is_some items.old.value) }
    ensures len { IsRead (λ xs. result ≡ length xs) items.old.value items.new.value }
{
    with_value!(held in items, alloc; held.as_slice().len())
}

/// Returns whether there is an item `i`, counted from 0. If there is one, `head` is set to what it says.
#[unsafe(no_mangle)]
pub extern "C" fn raft_ffi_items_head(
    alloc: Global,
    items: &mut Items,
    i: usize,
    head: &mut ItemHead,
) -> bool
    requires held { IsTrue (is_some items.old.value) }
    ensures found { IsRead (λ xs. IsFound (λ item. IsHeadOf item head.new) (slice_get xs i) result) items.old.value items.new.value }
{
    with_value!(held in items, alloc; set_head_of_item(&*held, i, head))
}

/// Returns whether there is an item `i`, counted from 0, and it is one of entries. If so, as many of them as there is room for
/// are listed in `entries`, and `count` is set to how many there are, which may be more.
#[unsafe(no_mangle)]
pub extern "C" fn raft_ffi_items_entries(
    alloc: Global,
    items: &mut Items,
    i: usize,
    entries: &mut [Entry],
    count: &mut usize,
) -> bool
    requires held { IsTrue (is_some items.old.value) }
    ensures found { IsRead (λ xs. IsFound (λ es. AreEntriesIn es entries.old entries.new count.new) (entries_at xs i) result)
        items.old.value items.new.value }
{
    with_value!(held in items, alloc; copy_item_entries(&*held, i, entries, count))
}

/// Returns whether there is an item `i`, counted from 0, and it changes a key. If so, as many bytes of the key as there is
/// room for are copied into `key`, and `len` is set to how many it has, which may be more.
#[unsafe(no_mangle)]
pub extern "C" fn raft_ffi_items_key(
    alloc: Global,
    items: &mut Items,
    i: usize,
    key: &mut [u8],
    len: &mut usize,
) -> bool
    requires held { IsTrue (is_some items.old.value) }
    ensures found { IsRead (λ xs. IsCopiedIfAny (key_at xs i) key.old key.new len.new result) items.old.value items.new.value }
{
    with_value!(held in items, alloc; copy_found(key_of(&*held, i), key, len))
}

/// Returns whether there is an item `i`, counted from 0, and it puts a value. If so, as many bytes of the value as there is
/// room for are copied into `value`, and `len` is set to how many it has, which may be more.
#[unsafe(no_mangle)]
pub extern "C" fn raft_ffi_items_value(
    alloc: Global,
    items: &mut Items,
    i: usize,
    value: &mut [u8],
    len: &mut usize,
) -> bool
    requires held { IsTrue (is_some items.old.value) }
    ensures found { IsRead (λ xs. IsCopiedIfAny (value_at xs i) value.old value.new len.new result) items.old.value items.new.value }
{
    with_value!(held in items, alloc; copy_found(value_of(&*held, i), value, len))
}

/// Frees the items.
#[unsafe(no_mangle)]
pub extern "C" fn raft_ffi_items_drop(items: Items)
    requires held { IsTrue (is_some items.value) }
{
    drop(items.into_box());
}

/// Returns item `i`, counted from 0; `None` if there are not so many.
fn item_at(items: &ItemList, i: usize) -> Option<&LogItem>
    ensures { option_map (λ item. item_of item.now) result ≡ slice_get items.now i }
{
    items.as_slice().get(i)
}

/// Sets `head` to what item `i` says. Returns whether there is one; without it nothing is changed.
fn set_head_of_item(items: &ItemList, i: usize, head: &mut ItemHead) -> bool
    ensures { IsFound (λ item. IsHeadOf item head.new) (slice_get items.now i) result }
{
    let Some(item) = item_at(items, i) else {
        return false;
    };
    let (kind, number) = kind_and_number(&item.content);
    *head = ItemHead {
        region: item.raft_group_id,
        number,
        kind,
    };
    true
}

/// Returns the number of an item's kind, and how many entries it has, or the index of its command, as [`ItemHead`] has them.
fn kind_and_number(content: &LogItemContent) -> (u32, u64)
    ensures kind { result.0 ≡ kind_of (content_of content.now) }
    ensures number { result.1 ≡ number_of (content_of content.now) }
{
    match content {
        LogItemContent::EntryIndexes(entries) => (0, entries.0.len() as u64),
        LogItemContent::Command(Command::Clean) => (1, 0),
        LogItemContent::Command(Command::Compact { index }) => (2, *index),
        LogItemContent::Command(Command::Truncate { index }) => (3, *index),
        LogItemContent::Kv(kv) => match kv.op_type {
            OpType::Put => (4, 0),
            OpType::Del => (5, 0),
        },
    }
}

/// Copies the entries of item `i` into `room`, as many as there is room for, and sets `count` to how many there are. Returns
/// whether the item is one of entries; else nothing is changed.
fn copy_item_entries(items: &ItemList, i: usize, room: &mut [Entry], count: &mut usize) -> bool
    ensures { IsFound (λ es. AreEntriesIn es room.old room.new count.new) (entries_at items.now i) result }
{
    let Some(entries) = entries_of(items, i) else {
        return false;
    };
    *count = copy_entries(entries, room);
    true
}

/// Returns the entries of item `i`; `None` if there is no such item, or it isn't one of entries.
fn entries_of(items: &ItemList, i: usize) -> Option<&[EntryIndex]>
    ensures { option_map (λ es. es.now) result ≡ entries_at items.now i }
{
    match &item_at(items, i)?.content {
        LogItemContent::EntryIndexes(entries) => Some(entries.0.as_slice()),
        LogItemContent::Command(_) | LogItemContent::Kv(_) => None,
    }
}

/// Returns the key of item `i`; `None` if there is no such item, or it doesn't change a key.
fn key_of(items: &ItemList, i: usize) -> Option<&[u8]>
    ensures { option_map (λ key. key.now) result ≡ key_at items.now i }
{
    match &item_at(items, i)?.content {
        LogItemContent::Kv(kv) => Some(kv.key.as_slice()),
        LogItemContent::EntryIndexes(_) | LogItemContent::Command(_) => None,
    }
}

/// Returns the value of item `i`; `None` if there is no such item, or it doesn't put a value.
fn value_of(items: &ItemList, i: usize) -> Option<&[u8]>
    ensures { option_map (λ value. value.now) result ≡ value_at items.now i }
{
    match &item_at(items, i)?.content {
        LogItemContent::Kv(kv) => match &kv.value {
            Some(value) => Some(value.as_slice()),
            None => None,
        },
        LogItemContent::EntryIndexes(_) | LogItemContent::Command(_) => None,
    }
}
