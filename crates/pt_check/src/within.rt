ghost use Rattle.std.specs.Prelude.{◌≡◌};
ghost use Rattle.pt_check.specs.Within.{below, holder, starts_object as starts_object_in};

use pt_tree::{Kind, Name};
use pt_walk::{At, Finding, is_shorty};

/// What a folder is to a run over the store.
#[derive(Clone, Copy, Debug, PartialEq, Eq)]
pub enum Within {
    /// A site, which stands so.
    Site(At),
    /// A shorty below a name of one byte.
    Past,
    /// An object's own folder, or one in it; the paths of its entries have so many bytes before
    /// their logical path.
    Object(u64),
    /// A folder of which no run makes anything.
    Beside,
}

/// What a folder is, or what holds an entry, and whether what lies in it, or the entry, is the own
/// of the share that is checked.
#[derive(Clone, Copy, Debug, PartialEq, Eq)]
pub struct Part {
    /// What it is to a run.
    pub within: Within,
    /// Whether the share tells of it.
    pub own: bool,
}

/// A folder, what it is found to be, and how many bytes its path has from the store's folder on.
#[derive(Clone, Copy, Debug, PartialEq, Eq)]
pub struct FoundFolder {
    /// What it is to a run, and whether what lies in it is the share's own.
    pub part: Part,
    /// What it is found to be; what is no site only leads on.
    pub finding: Finding,
    /// The length of its path.
    pub length: u64,
}

impl Within {
    /// Whether an object starts with a folder that is this, which stands in what is that.
    pub fn starts_object(self, above: Within) -> bool
        ensures { result ≡ starts_object_in self above }
    {
        matches!((self, above), (Within::Object(_), Within::Site(_)))
    }
}

impl FoundFolder {
    /// What holds its entries that are no folders: itself, or the object that a site is.
    pub fn holder(self) -> Within
        ensures { result ≡ holder self.part.within self.finding self.length }
    {
        match self.finding {
            Finding::Gathered => Within::Object(self.length.saturating_add(1)),
            _ => self.part.within,
        }
    }

    /// What a folder in it is that has this name, and whose path has so many bytes, and is the
    /// share's own or not.
    pub fn child(self, name: &Name, length: u64, own: bool) -> Part
        ensures { result ≡ record {
          within = below self.part.within self.finding name.now self.length length;
          own = own;
        } }
    {
        Part {
            within: self.below(name, length),
            own,
        }
    }

    // What it is to a run.
    fn below(self, name: &Name, length: u64) -> Within
        ensures { result ≡ below self.part.within self.finding name.now self.length length }
    {
        match (self.part.within, self.finding) {
            (Within::Site(at), _) if is_shorty(name, Kind::Dir) => below_site(at, name),
            (Within::Site(_), Finding::Candidate(_)) => Within::Object(length.saturating_add(1)),
            (Within::Site(_), Finding::Gathered) => self.holder(),
            (Within::Object(before), _) => Within::Object(before),
            _ => Within::Beside,
        }
    }
}

// What a shorty is in a site.
fn below_site(at: At, name: &Name) -> Within
    ensures { result ≡ Rattle.pt_check.specs.Within.below_site at name.now }
{
    match at {
        At::Last => Within::Past,
        _ if name.bytes().len() == 1 => Within::Site(At::Last),
        _ => Within::Site(At::Pair),
    }
}
