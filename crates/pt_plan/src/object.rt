ghost use Rattle.std.specs.Prelude.{◌≡◌};

use pt_name::Identifier;
use pt_tree::NamePath;

/// An object that is being carried.
#[derive(Debug, Drop)]
pub struct Object {
    /// Its identifier.
    pub id: Identifier,
    /// Its place, from the storage root on.
    pub place: NamePath,
    /// Whether it is gathered from its site, and not encapsulated in a directory there.
    pub gathered: bool,
    /// How many listings lead to its site, the site's own among them: the trail's length there.
    pub site: usize,
    /// How many directories without entries were met in it.
    pub empty: u64,
}

impl Object {
    ghost use Rattle.pt_plan.specs.Object.{names_before};

    /// How many names lead to it, of the path of a file of it, from below `pairtree_root` on.
    pub fn names_before(&self) -> usize
        ensures { result ≡ names_before self.now }
    {
        if self.gathered {
            self.site.saturating_sub(1)
        } else {
            self.site
        }
    }
}
