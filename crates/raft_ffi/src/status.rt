//! The plain data that calls take and return: files, numbers that may be missing, how a call ended, and tails that were cut
//! off.

ghost use Rattle.std.specs.Prelude.{◌≡◌, OnOk, OnErr, IfOk, IfErr, option_map};
ghost use Rattle.raft_ffi.specs.Words.{HasText, IsCopied, IsFound, IsTailIn, IsTextIn, IsTextOf, code_of, file_of, mode_of, number_in, queue_of, version_of};

use raft_base::{Error, FileId, LogFileContext, LogQueue, Result, Version};
use raft_engine::{CutTail, RecoveryMode};
use std::alloc::Global;

/// A log file, with its version.
#[repr(C)]
#[derive(Clone, Copy)]
pub struct File {
    /// The number of the file in its queue.
    pub seq: u64,
    /// Whether it is of the rewrite queue.
    pub is_rewrite: bool,
    /// Whether it is of version 2.
    pub is_signed: bool,
}

/// A number that may be missing.
#[repr(C)]
#[derive(Clone, Copy)]
pub struct Maybe {
    /// Whether there is a number.
    pub is_some: bool,
    /// The number; it says nothing if there is none.
    pub number: u64,
}

/// How a call ended.
#[repr(C)]
#[derive(Clone, Copy)]
pub struct Status {
    /// 0, or the number of the error (see `error_code`): 1 (`InvalidArgument`) to 12 (`Failed`).
    pub code: u32,
    /// The length of the error's text in bytes, which may be more than were written; 0 without an error, or if there is no
    /// memory for the text.
    pub text_len: usize,
}

/// The tail that was cut off a queue's last file, if one was, and why no batch can be read where it began.
#[repr(C)]
#[derive(Clone, Copy)]
pub struct Tail {
    /// The number of the file.
    pub seq: u64,
    /// The offset in the file at which the tail began.
    pub offset: u64,
    /// How many bytes were cut off.
    pub len: u64,
    /// The length of the reason's text in bytes, which may be more than were written.
    pub text_len: usize,
    /// The number of the error that is the reason.
    pub code: u32,
    /// Whether a tail was cut off. Without one all numbers are 0.
    pub is_some: bool,
}

/// Returns the rewrite queue if `is_rewrite` is set, else the append queue.
pub(crate) fn to_queue(is_rewrite: bool) -> LogQueue
    ensures { result ≡ queue_of is_rewrite }
{
    if is_rewrite {
        LogQueue::Rewrite
    } else {
        LogQueue::Append
    }
}

/// Returns version 2 if `is_signed` is set, else version 1.
pub(crate) fn to_version(is_signed: bool) -> Version
    ensures { result ≡ version_of is_signed }
{
    if is_signed { Version::V2 } else { Version::V1 }
}

/// Returns the recovery mode with the number `mode`: 0 allows no cut, 2 allows the cut of damage too. Any other number stands
/// for the mode in which torn tails alone are cut off.
pub(crate) fn to_recovery_mode(mode: u32) -> RecoveryMode
    ensures { result ≡ mode_of mode }
{
    match mode {
        0 => RecoveryMode::AbsoluteConsistency,
        2 => RecoveryMode::TolerateTailCorruption,
        _ => RecoveryMode::TolerateTornTail,
    }
}

/// Tests whether `queue` is the rewrite queue.
pub(crate) fn is_rewrite_queue(queue: LogQueue) -> bool
    ensures { queue_of result ≡ queue }
{
    match queue {
        LogQueue::Append => false,
        LogQueue::Rewrite => true,
    }
}

impl Maybe {
    /// Returns the number, or `None` if it is missing.
    pub(crate) fn to_option(self) -> Option<u64>
        ensures { result ≡ number_in self }
    {
        self.is_some.then_some(self.number)
    }

    /// Returns the number as a size, or `None` if it is missing.
    pub(crate) fn to_size_option(self) -> Option<usize>
        ensures { result ≡ number_in self }
    {
        self.is_some.then_some(self.number as usize)
    }

    /// Returns a number that may be missing as plain data, with 0 in place of a missing one.
    pub(crate) fn of_option(number: Option<u64>) -> Maybe
        ensures { number_in result ≡ number }
    {
        Maybe {
            is_some: number.is_some(),
            number: number.unwrap_or(0),
        }
    }
}

impl Tail {
    /// Returns as plain data which tail was cut off, if one was, and writes the text of the reason into `text` as far as there
    /// is room.
    pub(crate) fn of_cut_tail(alloc: Global, cut: &Option<CutTail>, text: &mut [u8]) -> Tail
        ensures { IsTailIn cut.now result text.old text.new }
    {
        match cut {
            Some(cut) => Tail {
                seq: cut.file,
                offset: cut.offset,
                len: cut.len,
                text_len: write_text(alloc, &cut.error, text),
                code: error_code(&cut.error),
                is_some: true,
            },
            None => Tail {
                seq: 0,
                offset: 0,
                len: 0,
                text_len: 0,
                code: 0,
                is_some: false,
            },
        }
    }
}

impl File {
    /// Returns the file and its version as batches take them.
    pub(crate) fn to_context(&self) -> LogFileContext
        ensures { result ≡ file_of self.now }
    {
        let id = FileId::new(to_queue(self.is_rewrite), self.seq);
        LogFileContext::new(id, to_version(self.is_signed))
    }
}

/// Returns the number of an error, from 1 to 12, as [`Status`] has it.
pub(crate) fn error_code(e: &Error) -> u32
    ensures { result ≡ code_of e.now }
{
    match e {
        Error::InvalidArgument(_) => 1,
        Error::Corruption(_) => 2,
        Error::Io(_) => 3,
        Error::Codec(_) => 4,
        Error::Message(_) => 5,
        Error::TryAgain(_) => 6,
        Error::EntryCompacted => 7,
        Error::EntryNotFound => 8,
        Error::Full => 9,
        Error::Other(_) => 10,
        Error::Memory => 11,
        Error::Failed => 12,
    }
}

/// Returns 0 for `Ok`, and 11, the number of `Memory`, for any error: for calls that can fail for want of memory alone.
pub(crate) fn memory_code(answer: &Result<()>) -> u32
    ensures ok { OnOk answer.now (result ≡ 0) }
    ensures err { OnErr answer.now (result ≡ 11) }
{
    match answer {
        Ok(()) => 0,
        Err(_) => 11,
    }
}

/// Returns how a call ended, and writes the text of its error into `text` as far as there is room.
pub(crate) fn status_of<T>(alloc: Global, answer: &Result<T>, text: &mut [u8]) -> Status
    ensures ok { OnOk answer.now (result.code ≡ 0) }
    ensures err { IfErr answer.now (λ e. result.code ≡ code_of e) }
    ensures text { HasText result text.old text.new }
    ensures told { IfErr answer.now (λ e. IsTextOf e text.old text.new result.text_len) }
{
    match answer {
        Ok(_) => Status {
            code: 0,
            text_len: 0,
        },
        Err(e) => Status {
            code: error_code(e),
            text_len: write_text(alloc, e, text),
        },
    }
}

/// Returns how a call ended. After an `Ok`, `found` is set to its value; after an `Err`, the text of the error is written into
/// `text` as far as there is room, and `found` is unchanged.
pub(crate) fn store_and_answer<T: Copy>(
    alloc: Global,
    answer: Result<T>,
    found: &mut T,
    text: &mut [u8],
) -> Status
    ensures ok { OnOk answer (result.code ≡ 0) }
    ensures found { IfOk answer (λ x. found.new ≡ x) }
    ensures err { IfErr answer (λ e. result.code ≡ code_of e) }
    ensures text { HasText result text.old text.new }
{
    if let Ok(value) = &answer {
        *found = *value;
    }
    status_of(alloc, &answer, text)
}

/// Writes the text of an error into `text` as far as there is room. Returns the length of the text in bytes, or 0 if there is
/// no memory for it; nothing is written then.
fn write_text(alloc: Global, e: &Error, text: &mut [u8]) -> usize
    ensures some { IsTextIn text.old text.new result }
    ensures told { IsTextOf e.now text.old text.new result }
{
    let words = match e {
        Error::Corruption(reason) => format!(in alloc; "Corruption: {reason}"),
        _ => format!(in alloc; "{e}"),
    };
    match words {
        Ok(words) => copy_front(words.as_bytes(), text),
        Err(_) => 0,
    }
}

/// Copies the first elements of `found` into `room`, as many as there is room for. Returns how many elements `found` has,
/// which may be more than were copied.
pub(crate) fn copy_front<T: Copy>(found: &[T], room: &mut [T]) -> usize
    ensures { IsCopied found.now room.old room.new result }
{
    let count = found.len().min(room.len());
    let (front, _) = found.split_at(count);
    let (to, _) = room.split_at_mut(count);
    to.copy_from_slice(front);
    found.len()
}

/// Copies bytes into `room`, as many as there is room for, and sets `len` to how many bytes there are, which may be more.
/// Returns whether `found` has bytes; for `None` nothing is changed.
pub(crate) fn copy_found(found: Option<&[u8]>, room: &mut [u8], len: &mut usize) -> bool
    ensures { IsFound (λ bytes. IsCopied bytes room.old room.new len.new) (option_map (λ v. v.now) found.entry) result }
{
    let Some(found) = found else {
        return false;
    };
    *len = copy_front(found, room);
    true
}
