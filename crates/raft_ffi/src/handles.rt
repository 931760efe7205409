//! Values on the heap behind pointers that C keeps.

ghost use Rattle.std.specs.Prelude.{◌≡◌, List, Option, Some, None, IsTrue, is_some, IfErr, OnErr, OnOk};
ghost use Rattle.raft_ffi.specs.Words.{coded_option, Accessor, accessor_code, RecoverContext, recover_context_code, KeptEngine, engine_code, Item, ReaderSeen, reader_code, handle_owned, box_owns};
ghost use Rattle.raft_accessor.specs.contracts.accessor.MemTableAccessor.{the_row as tables_row};
ghost use Rattle.raft_contexts.specs.contracts.recover_context.MemTableRecoverContext.{the_row as context_row};
ghost use Rattle.raft_records.specs.LogBatch.{Batch as BatchSeen};
ghost use Rattle.raft_records.specs.contracts.log_batch.LogBatch.{the_row as batch_row};
ghost use Rattle.raft_ffi.specs.contracts.held_engine.HeldEngine.{the_row as engine_row};
ghost use Rattle.raft_ffi.specs.contracts.item_list.ItemList.{the_row as items_row};
ghost use Rattle.raft_ffi.specs.contracts.queue_reader.QueueReader.{the_row as reader_row};

use crate::held_engine::HeldEngine;
use crate::item_list::ItemList;
use crate::queue_reader::QueueReader;
use raft_accessor::MemTableAccessor;
use raft_base::{Error, Result};
use raft_contexts::MemTableRecoverContext;
use raft_records::LogBatch;
use std::alloc::{Allocator, Global};
use std::marker::Model;
use std::{mem, ptr};

/// A box that was taken apart: its pointer and its allocator.
pub struct Parts<T, A: Allocator> {
    /// The pointer to the value.
    pub(crate) ptr: *mut T,
    /// The allocator of the box.
    pub(crate) alloc: A,
    pub ghost value: { T },
}

impl<T, A: Allocator> Model for Parts<T, A> {
    ghost also_owns = { λ p. box_owns (A.dealloc_token p.alloc) T.row p.ptr p.value };
}

impl<T, A: Allocator> Parts<T, A> {
    /// Takes a box apart, into its pointer and its allocator. Nothing frees the value until [`Parts::into_box`] has made the
    /// box again.
    pub fn of(b: Box<T, A>) -> Parts<T, A>
    where
        T: Drop,
        ensures { result.value ≡ b.value }
    {
        let (ptr, alloc) = Box::into_raw_with_allocator(b);
        Parts { ptr, alloc }
    }

    /// Makes the box again that was taken apart.
    pub fn into_box(self) -> Box<T, A>
        ensures { result.value ≡ self.value }
    {
        let Parts { ptr, alloc } = self;
        unsafe { Box::from_raw(alloc, ptr) }
    }
}

/// Evaluates `body` on the value that a handle holds, as the box `held`, and returns the result. The handle is empty
/// meanwhile, and holds the value again afterwards.
macro_rules! with_value {
    ($held:ident in $handle:ident, $alloc:ident; $body:expr) => {{
        let mut $held = $handle.take($alloc);
        let answer = $body;
        $handle.put($held);
        answer
    }};
}

/// Does what `with_value!` does with a body that returns a `Result`, and returns how that ended. With the allocator alone this
/// is a number, 0 or that of `Memory`; with a text it is a `Status`; with `found` and a text it is a `Status`, and `found` is
/// set to what an `Ok` has.
macro_rules! answer_with_value {
    ($held:ident in $handle:ident, $alloc:ident; $body:expr) => {{
        let answer = with_value!($held in $handle, $alloc; $body);
        crate::status::memory_code(&answer)
    }};
    ($held:ident in $handle:ident, $alloc:ident, $text:ident; $body:expr) => {{
        let answer = with_value!($held in $handle, $alloc; $body);
        crate::status::status_of($alloc, &answer, $text)
    }};
    ($held:ident in $handle:ident, $alloc:ident, $found:ident, $text:ident; $body:expr) => {{
        let answer = with_value!($held in $handle, $alloc; $body);
        crate::status::store_and_answer($alloc, answer, $found, $text)
    }};
}

/// Does what `answer_with_value!` with a text does. But after an error the value that the handle held is dropped, and the
/// handle stays empty.
macro_rules! answer_or_drop {
    ($held:ident in $handle:ident, $alloc:ident, $text:ident; $body:expr) => {{
        let mut $held = $handle.take($alloc);
        let answer = $body;
        match &answer {
            Ok(()) => $handle.put($held),
            Err(_) => drop($held),
        }
        crate::status::status_of($alloc, &answer, $text)
    }};
}

/// Returns the value of an `Ok`. After an error, which is want of memory, it returns from the calling function: with the
/// number of `Memory`, or with its `Status` if a text is given.
macro_rules! unwrap_or_return {
    ($made:expr) => {
        match $made {
            Ok(made) => made,
            Err(_) => return 11,
        }
    };
    ($made:expr, $alloc:ident, $text:ident) => {
        match $made {
            Ok(made) => made,
            Err(_) => return crate::status::status_of::<()>($alloc, &Err(Error::Memory), $text),
        }
    };
}

pub(crate) use answer_or_drop;
pub(crate) use answer_with_value;
pub(crate) use unwrap_or_return;
pub(crate) use with_value;

/// A type of handles: each holds a value on the heap, or nothing. C keeps it as a pointer, which is null if it holds nothing.
pub(crate) trait Handle: Sized + Drop {
    /// The type of the values that are held.
    type Held: Drop;

    /// What this one holds.
    ghost value: { Self → Option Self.Held };

    /// Makes a handle that holds nothing. It keeps `alloc`, and allocates nothing.
    fn empty(alloc: Global) -> Self
        ensures { value result ≡ None };

    /// Makes the handle that holds a box which was taken apart.
    fn of_parts(parts: Parts<Self::Held, Global>) -> Self
        ensures { value result ≡ Some parts.value };

    /// Returns the box that the handle holds, taken apart. The handle must hold one.
    fn into_parts(self) -> Parts<Self::Held, Global>
        requires { IsTrue (is_some (value self)) }
        ensures { value self ≡ Some result.value };

    /// Returns the box that the handle holds. The handle must hold one.
    final fn into_box(self) -> Box<Self::Held>
        requires { IsTrue (is_some (value self)) }
        ensures { value self ≡ Some result.value }
    {
        self.into_parts().into_box()
    }

    /// Returns the value that the handle holds, out of its box, which is freed. The handle must hold one.
    final fn into_held(self) -> Self::Held
        requires { IsTrue (is_some (value self)) }
        ensures { value self ≡ Some result }
    {
        Box::into_inner(self.into_box())
    }

    /// Takes the box out of the handle, which then holds nothing. It must hold one before.
    final fn take(&mut self, alloc: Global) -> Box<Self::Held>
        requires { IsTrue (is_some (value self.old)) }
        ensures value { value self.old ≡ Some result.value }
        ensures emptied { value self.new ≡ None }
    {
        mem::replace(self, Self::empty(alloc)).into_box()
    }

    /// Lets the handle hold this box.
    final fn put(&mut self, held: Box<Self::Held>)
        ensures { value self.new ≡ Some held.value }
    {
        *self = Self::of_parts(Parts::of(held));
    }

    /// Lets the handle hold this value, in a new box.
    ///
    /// # Errors
    ///
    /// `Memory` alone. The handle is unchanged then, and the value is dropped.
    final fn put_new(&mut self, alloc: Global, held: Self::Held) -> Result<()>
        ensures ok { OnOk result (value self.new ≡ Some held) }
        ensures err { OnErr result (value self.new ≡ value self.old) }
        ensures memory { IfErr result (λ e. e ≡ Error.Memory) }
    {
        self.put(Box::new(alloc, held)?);
        Ok(())
    }
}

/// A handle of a log batch that is written, or of nothing.
#[repr(C)]
#[derive(Drop)]
pub struct Batch {
    /// The pointer to the value; null if nothing is held.
    at: *mut u8,
    /// The allocator of the box.
    alloc: Global,
    pub ghost value: { Option BatchSeen } by { coded_option batch_row.coded },
}

impl Model for Batch {
    ghost also_owns = { λ h. handle_owned batch_row h.alloc h.at h.value };
}

impl Handle for Batch {
    type Held = LogBatch;

    ghost value = { λ h. h.value };

    /// Makes a handle of no batch. It keeps `alloc`, and allocates nothing.
    fn empty(alloc: Global) -> Batch {
        let at = ptr::null_mut();
        Batch { at, alloc }
    }

    /// Makes the handle of the batch, whose box was taken apart.
    fn of_parts(parts: Parts<LogBatch, Global>) -> Batch
        ensures { result.value ≡ Some parts.value }
    {
        let Parts { ptr, alloc } = parts;
        let at = ptr as *mut u8;
        Batch { at, alloc }
    }

    /// Returns the box of the batch, taken apart. The handle must hold one.
    fn into_parts(self) -> Parts<LogBatch, Global> {
        let Batch { at, alloc } = self;
        let ptr = at as *mut LogBatch;
        Parts { ptr, alloc }
    }
}

unsafe impl Send for Batch {}

/// A handle of a context, or of nothing.
#[repr(C)]
#[derive(Drop)]
pub struct Context {
    /// The pointer to the value; null if nothing is held.
    at: *mut u8,
    /// The allocator of the box.
    alloc: Global,
    pub ghost value: { Option RecoverContext } by { coded_option recover_context_code },
}

impl Model for Context {
    ghost also_owns = { λ h. handle_owned context_row h.alloc h.at h.value };
}

impl Handle for Context {
    type Held = MemTableRecoverContext;

    ghost value = { λ h. h.value };

    /// Makes a handle of no context. It keeps `alloc`, and allocates nothing.
    fn empty(alloc: Global) -> Context {
        let at = ptr::null_mut();
        Context { at, alloc }
    }

    /// Makes the handle of the context, whose box was taken apart.
    fn of_parts(parts: Parts<MemTableRecoverContext, Global>) -> Context
        ensures { result.value ≡ Some parts.value }
    {
        let Parts { ptr, alloc } = parts;
        let at = ptr as *mut u8;
        Context { at, alloc }
    }

    /// Returns the box of the context, taken apart. The handle must hold one.
    fn into_parts(self) -> Parts<MemTableRecoverContext, Global> {
        let Context { at, alloc } = self;
        let ptr = at as *mut MemTableRecoverContext;
        Parts { ptr, alloc }
    }
}

unsafe impl Send for Context {}

/// A handle of an engine, or of nothing.
#[repr(C)]
#[derive(Drop)]
pub struct Engine {
    /// The pointer to the value; null if nothing is held.
    at: *mut u8,
    /// The allocator of the box.
    alloc: Global,
    pub ghost value: { Option KeptEngine } by { coded_option engine_code },
}

impl Model for Engine {
    ghost also_owns = { λ h. handle_owned engine_row h.alloc h.at h.value };
}

impl Handle for Engine {
    type Held = HeldEngine;

    ghost value = { λ h. h.value };

    /// Makes a handle of no engine. It keeps `alloc`, and allocates nothing.
    fn empty(alloc: Global) -> Engine {
        let at = ptr::null_mut();
        Engine { at, alloc }
    }

    /// Makes the handle of the engine, whose box was taken apart.
    fn of_parts(parts: Parts<HeldEngine, Global>) -> Engine
        ensures { result.value ≡ Some parts.value }
    {
        let Parts { ptr, alloc } = parts;
        let at = ptr as *mut u8;
        Engine { at, alloc }
    }

    /// Returns the box of the engine, taken apart. The handle must hold one.
    fn into_parts(self) -> Parts<HeldEngine, Global> {
        let Engine { at, alloc } = self;
        let ptr = at as *mut HeldEngine;
        Parts { ptr, alloc }
    }
}

unsafe impl Send for Engine {}

/// A handle of a list of items, or of nothing.
#[repr(C)]
#[derive(Drop)]
pub struct Items {
    /// The pointer to the value; null if nothing is held.
    at: *mut u8,
    /// The allocator of the box.
    alloc: Global,
    pub ghost value: { Option (List Item) } by { coded_option items_row.coded },
}

impl Model for Items {
    ghost also_owns = { λ h. handle_owned items_row h.alloc h.at h.value };
}

impl Handle for Items {
    type Held = ItemList;

    ghost value = { λ h. h.value };

    /// Makes a handle of no list of items. It keeps `alloc`, and allocates nothing.
    fn empty(alloc: Global) -> Items {
        let at = ptr::null_mut();
        Items { at, alloc }
    }

    /// Makes the handle of the list of items, whose box was taken apart.
    fn of_parts(parts: Parts<ItemList, Global>) -> Items
        ensures { result.value ≡ Some parts.value }
    {
        let Parts { ptr, alloc } = parts;
        let at = ptr as *mut u8;
        Items { at, alloc }
    }

    /// Returns the box of the list of items, taken apart. The handle must hold one.
    fn into_parts(self) -> Parts<ItemList, Global> {
        let Items { at, alloc } = self;
        let ptr = at as *mut ItemList;
        Parts { ptr, alloc }
    }
}

unsafe impl Send for Items {}

/// A handle of a reader of a queue's files, or of nothing.
#[repr(C)]
#[derive(Drop)]
pub struct Reader {
    /// The pointer to the value; null if nothing is held.
    at: *mut u8,
    /// The allocator of the box.
    alloc: Global,
    pub ghost value: { Option ReaderSeen } by { coded_option reader_code },
}

impl Model for Reader {
    ghost also_owns = { λ h. handle_owned reader_row h.alloc h.at h.value };
}

impl Handle for Reader {
    type Held = QueueReader;

    ghost value = { λ h. h.value };

    /// Makes a handle of no reader. It keeps `alloc`, and allocates nothing.
    fn empty(alloc: Global) -> Reader {
        let at = ptr::null_mut();
        Reader { at, alloc }
    }

    /// Makes the handle of the reader, whose box was taken apart.
    fn of_parts(parts: Parts<QueueReader, Global>) -> Reader
        ensures { result.value ≡ Some parts.value }
    {
        let Parts { ptr, alloc } = parts;
        let at = ptr as *mut u8;
        Reader { at, alloc }
    }

    /// Returns the box of the reader, taken apart. The handle must hold one.
    fn into_parts(self) -> Parts<QueueReader, Global> {
        let Reader { at, alloc } = self;
        let ptr = at as *mut QueueReader;
        Parts { ptr, alloc }
    }
}

unsafe impl Send for Reader {}

/// A handle of the tables of all regions, or of nothing.
#[repr(C)]
#[derive(Drop)]
pub struct Tables {
    /// The pointer to the value; null if nothing is held.
    at: *mut u8,
    /// The allocator of the box.
    alloc: Global,
    pub ghost value: { Option Accessor } by { coded_option accessor_code },
}

impl Model for Tables {
    ghost also_owns = { λ h. handle_owned tables_row h.alloc h.at h.value };
}

impl Handle for Tables {
    type Held = MemTableAccessor;

    ghost value = { λ h. h.value };

    /// Makes a handle of no tables. It keeps `alloc`, and allocates nothing.
    fn empty(alloc: Global) -> Tables {
        let at = ptr::null_mut();
        Tables { at, alloc }
    }

    /// Makes the handle of the tables, whose box was taken apart.
    fn of_parts(parts: Parts<MemTableAccessor, Global>) -> Tables
        ensures { result.value ≡ Some parts.value }
    {
        let Parts { ptr, alloc } = parts;
        let at = ptr as *mut u8;
        Tables { at, alloc }
    }

    /// Returns the box of the tables, taken apart. The handle must hold some.
    fn into_parts(self) -> Parts<MemTableAccessor, Global> {
        let Tables { at, alloc } = self;
        let ptr = at as *mut MemTableAccessor;
        Parts { ptr, alloc }
    }
}

unsafe impl Send for Tables {}
