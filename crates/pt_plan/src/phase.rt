use crate::Object;
use pt_tree::Kind;

/// Where a run stands between two turns: what the next turn does. Each phase holds at most one
/// identifier, one place and numbers.
#[derive(Debug, Drop)]
pub enum Phase {
    /// Opens the store and the destination.
    Opening(Opening),
    /// Judges the site that was entered.
    Judge,
    /// Carries an object.
    Carrying(Object, Stage),
    /// Looks at the next entry of a site.
    Walk,
    /// Tells that the run is done.
    End,
    /// Nothing is left to do.
    Ended,
}

/// What is done before the first site is judged, in this order: a storage root is made, or else
/// compared.
#[derive(Clone, Copy, Debug)]
pub enum Opening {
    /// Looks whether the source is a Pairtree store.
    Begin,
    /// Reads the prefix file, which is of this kind, if it is there.
    Prefix(Option<Kind>),
    /// Asks whether `staging` is there.
    Staging,
    /// Asks whether `ocfl` is there.
    Root,
    /// Makes the item of this number, from 0 to 5, of a new storage root.
    RootMake(u8),
    /// Renames `staging`, which is a storage root, to `ocfl`.
    RootRename,
    /// Compares the file of this number, from 0 to 2, of the storage root that stands.
    RootCheck(usize),
    /// Lists `pairtree_root`.
    OpenRoot,
}

/// How far an object is carried.
#[derive(Clone, Copy, Debug)]
pub enum Stage {
    /// Enters the object.
    Open,
    /// Looks at the next entry of the object.
    Scan,
    /// Reads on in a file of the object, of which so many bytes were read.
    Read(u64),
    /// Makes a part of the object in `staging`.
    Make(Part),
    /// Copies on a file of the object, of which so many bytes are left.
    Copy(Position, u64),
    /// Makes the tuple directory of this number, from 0 on, where it is absent.
    Tuples(usize),
    /// Renames `staging`, which is the object, to its place.
    Rename,
    /// Tells that the object is done.
    Line,
}

/// A part of an object, in the order in which they are made.
#[derive(Clone, Copy, Debug, PartialEq, Eq)]
pub enum Part {
    /// The directory `staging`.
    Staging,
    /// The file `0=ocfl_object_1.1`.
    Declaration,
    /// The directory `v1`.
    Version,
    /// The next directory or file of `v1/content`.
    Content(Position),
    /// The file `v1/inventory.json`.
    VersionInventory,
    /// Its sidecar.
    VersionSidecar,
    /// The file `inventory.json`.
    Inventory,
    /// Its sidecar.
    Sidecar,
}

/// How far the contents of an object are made.
#[derive(Clone, Copy, Debug, PartialEq, Eq)]
pub struct Position {
    /// The row that is next, from 0 on.
    pub row: usize,
    /// How many contents are stored.
    pub stored: usize,
    /// How many directories of the next content's path stand, `v1/content` counted as the first.
    pub directories: usize,
}
