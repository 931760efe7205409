//! Exported calls that hand out orders: what is to be done to an engine's files.

ghost use Rattle.std.specs.Prelude.{◌≡◌, ◌<◌, ◌≤◌, true, false, Some, None, IsTrue, is_some, length, take};
ghost use Rattle.raft_ffi.specs.Words.{Holds, IsTaking, IsWaiting, Lasts, act_of, act_of_kind, ask_in, ask_of, length_put, next_to_do};

use crate::handles::{Engine, Handle, with_value};
use crate::status::{copy_front, is_rewrite_queue};
use raft_orders::{HandedFiles, NumberedOrder, Task};
use std::alloc::Global;

/// What is to be done to files, without the bytes that are put.
#[repr(C)]
#[derive(Clone, Copy)]
pub struct OrderHead {
    /// The number of the order: how many there were before it.
    pub at: u64,
    /// The number of the file that is begun, or how many bytes the last file keeps; 0 for other kinds.
    pub number: u64,
    /// How many bytes are put; 0 for other kinds.
    pub len: usize,
    /// 0: put, 1: begin, 2: sync, 3: delete, 4: cut.
    pub kind: u32,
    /// Whether it is about the rewrite queue.
    pub is_rewrite: bool,
}

/// Takes the oldest order that waits. If there is room for its bytes it is taken: `order` says what to do, its bytes are in
/// `bytes`, and `is_taken` is set. Else it still waits, `order` has its number (`at`) and how many bytes it has (`len`), and
/// `is_taken` is false. Returns whether an order waited; if none did, `at` is how many were taken before.
///
/// Orders are numbered from 0 on, and are to be carried out in turn. Whatever prefix of them was carried out when the machine
/// crashes, what was synced in it is found again.
#[unsafe(no_mangle)]
pub extern "C" fn raft_ffi_engine_take_order(
    alloc: Global,
    engine: &mut Engine,
    order: &mut OrderHead,
    bytes: &mut [u8],
    is_taken: &mut bool,
) -> bool
    requires held { IsTrue (is_some engine.old.value) }
    ensures same { engine.new.value ≡ engine.old.value }
    ensures taken { is_taken.new ≡ true → Holds
        (λ e. next_to_do e.asks order.new.at ≡ Some (ask_in order.new bytes.new)) engine.old.value }
    ensures waits { result ≡ true → is_taken.new ≡ false → Holds (λ e. (length bytes.old < order.new.len) × IsWaiting
        e.asks order.new.at order.new.len) engine.old.value }
    ensures none { result ≡ false → Holds (λ e. next_to_do e.asks order.new.at ≡ None) engine.old.value }
    ensures untaken { result ≡ false → is_taken.new ≡ false }
    ensures lasts { Holds Lasts engine.old.value }
{
    let taking = with_value!(held in engine, alloc; {
        held.engine.nothing_synced_is_lost();
        held.take_order(bytes.len())
    });
    *is_taken = false;
    match taking {
        Taking::Taken(taken) => {
            *order = order_head(&taken, bytes);
            *is_taken = true;
            true
        }
        Taking::TooLong(at, len) => {
            order.at = at;
            order.len = len;
            true
        }
        Taking::NoneWaits(at) => {
            order.at = at;
            false
        }
    }
}

/// Returns what an order says without its bytes, and copies its bytes to the start of `bytes`, which has room for them.
fn order_head(taken: &NumberedOrder, bytes: &mut [u8]) -> OrderHead
    requires { length_put taken.now.order.task ≤ length bytes.old }
    ensures number { result.at ≡ taken.now.number }
    ensures says { ask_in result bytes.new ≡ ask_of taken.now.order }
{
    let (kind, number, len) = task_numbers(&taken.order.task, bytes);
    OrderHead {
        at: taken.number,
        number,
        len,
        kind,
        is_rewrite: is_rewrite_queue(taken.order.queue),
    }
}

/// Returns the kind, the number and the length of a task, as [`OrderHead`] has them, and copies its bytes to the start of
/// `bytes`, which has room for them.
#[tactic(auto, using(crate::proofs::OrderLemmas::put_says))]
fn task_numbers(task: &Task, bytes: &mut [u8]) -> (u32, u64, usize)
    requires { length_put task.now ≤ length bytes.old }
    ensures { act_of_kind result.0 result.1 (take result.2 bytes.new) ≡ act_of task.now }
{
    match task {
        Task::Put(put) => (0, 0, copy_front(put.as_slice(), bytes)),
        Task::Begin(seq) => (1, *seq, 0),
        Task::Sync => (2, 0, 0),
        Task::Delete => (3, 0, 0),
        Task::Cut(len) => (4, *len, 0),
    }
}

/// What became of the oldest order that waits.
#[derive(Drop)]
pub(crate) enum Taking {
    /// It was taken.
    Taken(NumberedOrder),
    /// It still waits: it has this number and this many bytes, more than there is room for.
    TooLong(u64, usize),
    /// No order waits; this many were taken before.
    NoneWaits(u64),
}

/// Takes the oldest order that waits, if it has at most `room` bytes.
pub(crate) fn take_order_within(files: &mut HandedFiles, room: usize) -> Taking
    ensures taking { IsTaking files.old.asks room result }
    ensures same { files.new.asks ≡ files.old.asks }
{
    let number = files.taken();
    let Some(first) = files.first_order() else {
        return Taking::NoneWaits(number);
    };
    let len = first.bytes_len();
    if len > room {
        return Taking::TooLong(number, len);
    }
    match files.take_order() {
        Some(taken) => Taking::Taken(taken),
        None => unreachable!(),
    }
}
