//! A table in a box of its own, as the map of a slot keeps it.

ghost use Rattle.std.specs.Prelude.{◌≡◌, IfOk};
ghost use Rattle.raft_accessor.specs.Common.{empty_table};

use raft_base::AllocResult;
use raft_table::MemTable;
use std::alloc::Global;
use std::marker::Model;

/// A table in a box of its own. So a map of many tables is small, and moves little when it grows.
#[derive(Drop)]
pub struct BoxedTable {
    /// The box with the table.
    pub(crate) boxed: Box<MemTable>,
}

impl Model for BoxedTable {
    ghost use Rattle.raft_table.specs.Table.{Table};
    ghost use Rattle.raft_table.specs.TableCode.{table_code};

    ghost Value = { Table };

    ghost coded = { table_code };

    ghost view = { λ a. a.boxed.value };
}

impl BoxedTable {
    /// Puts `table` in a box.
    ///
    /// # Errors
    ///
    /// `AllocError` if there is no memory for it. The table is dropped then.
    pub(crate) fn new(alloc: Global, table: MemTable) -> AllocResult<BoxedTable>
        ensures { IfOk result (λ boxed. boxed ≡ table) }
    {
        let boxed = Box::new(alloc, table)?;
        Ok(BoxedTable { boxed })
    }

    /// Returns an empty table of the region `id`, in a box.
    ///
    /// # Errors
    ///
    /// `AllocError` if there is no memory for it.
    pub(crate) fn empty(alloc: Global, id: u64) -> AllocResult<BoxedTable>
        ensures { IfOk result (λ boxed. boxed ≡ empty_table id) }
    {
        BoxedTable::new(alloc, MemTable::new(alloc, id))
    }

    /// Returns the table, to be read.
    #[doc(hidden)]
    pub fn get(&self) -> &MemTable
        ensures { result.now ≡ self.now }
    {
        &self.boxed
    }

    /// Returns the table, and frees its box.
    pub(crate) fn into_table(self) -> MemTable
        ensures { result ≡ self }
    {
        Box::into_inner(self.boxed)
    }
}

/// Takes `table` out of its box, if there is one, and frees the box.
pub(crate) fn unbox_table(table: Option<BoxedTable>) -> Option<MemTable>
    ensures { result ≡ table }
{
    table.map(|table| table.into_table())
}
