//! Where the entries of some regions begin and end, by the id of the region.

ghost use Rattle.std.specs.Prelude.{◌≡◌, ◌↔◌, ℕ, [], cond, nat_eq, IfErr, IsTrue, OnOk, Some};
ghost use Rattle.raft_accessor.specs.Common.{IsFirst, known_extents, lookup};

use crate::append_check::Extent;
use raft_base::{Error, Result};
use std::alloc::Global;
use std::collections::HashMap;

/// The extents of some regions, each by the region's id. The first region that is noted is kept beside the
/// map of the others, so that items of one region alone need no map.
#[derive(Drop)]
pub(crate) struct KnownExtents {
    /// The first region that was noted, with its extent.
    first: Option<(u64, Extent)>,
    /// The extents of the other regions.
    others: HashMap<u64, Extent>,
}

impl KnownExtents {
    /// Returns a set without extents. It allocates nothing yet.
    pub(crate) fn new(alloc: Global) -> KnownExtents
        ensures { known_extents result ≡ [] }
    {
        KnownExtents {
            first: None,
            others: HashMap::new(alloc),
        }
    }

    /// Returns the extent of the region `id`, or `None` if none was noted.
    pub(crate) fn get(&self, id: u64) -> Option<Extent>
        ensures { result ≡ lookup (nat_eq id) (known_extents self.now) }
    {
        match self.first {
            Some((region, extent)) => {
                if region == id {
                    Some(extent)
                } else {
                    self.get_other(id)
                }
            }
            None => self.get_other(id),
        }
    }

    /// Returns the extent of the region `id` in the map, or `None` if it isn't there. The first region isn't
    /// in the map.
    fn get_other(&self, id: u64) -> Option<Extent>
        ensures { result ≡ lookup (nat_eq id) self.now.others.entries }
    {
        self.others.get(&id).copied()
    }

    /// Notes `extent` as the extent of the region `id`, in place of the one that was noted.
    ///
    /// # Errors
    ///
    /// `Memory` alone. What was noted is unchanged then.
    pub(crate) fn insert(&mut self, id: u64, extent: Extent) -> Result<()>
        ensures ok { OnOk result ((q : ℕ) → lookup (nat_eq q) (known_extents self.new)
            ≡ cond (nat_eq id q) (Some extent) (lookup (nat_eq q) (known_extents self.old))) }
        ensures memory { IfErr result (λ e. e ≡ Error.Memory) }
    {
        if !self.is_first(id) {
            self.others.insert(id, extent)?;
            return Ok(());
        }
        self.first = Some((id, extent));
        Ok(())
    }

    /// Tests whether `id` is the region that is kept beside the map, or will be, since none was noted yet.
    fn is_first(&self, id: u64) -> bool
        ensures { IsTrue result ↔ IsFirst id self.now.first }
    {
        match self.first {
            Some((region, _)) => region == id,
            None => true,
        }
    }
}
