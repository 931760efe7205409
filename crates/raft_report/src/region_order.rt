//! The order in which tables are printed.

ghost use Rattle.std.specs.Prelude.{◌≡◌, IsPermutation};
ghost use Rattle.std.specs.List.Sorted.{IsNonDecreasingBy};

use raft_recover::MemTable;

/// Sorts tables by their region ids, the lowest first.
pub(crate) fn sort_by_region(tables: &mut Vec<&MemTable>)
    ensures moved { IsPermutation tables.old.items tables.new.items }
    ensures rises { IsNonDecreasingBy (λ t. t.now.region_id) tables.new.items }
{
    tables.sort_unstable_by_key(
        |table: &&MemTable| -> u64
            ensures { result ≡ table.now.now.region_id }
        { table.region_id() },
    );
}
