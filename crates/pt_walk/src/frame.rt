ghost use Rattle.std.specs.Prelude.{◌≡◌, ◌++◌, OnOk};
ghost use Rattle.pt_walk.specs.Trail.{name_at};

use pt_tree::{Listing, MemoryFault, NamePath};

/// A listing, and the place reached in it, from 0 to its length.
#[derive(Debug, Drop)]
pub struct Frame {
    pub listing: Listing,
    pub place: usize,
}

impl Frame {
    /// Adds the name of the entry at the place, if one is there. `Memory` where a growth was
    /// refused.
    pub fn add_name(&self, path: &mut NamePath) -> Result<(), MemoryFault>
        ensures { OnOk result (path.new ≡ path.old ++ name_at self.now) }
    {
        match self.listing.get(self.place) {
            Some((name, _)) => path.push(name.copy()?),
            None => Ok(()),
        }
    }
}
