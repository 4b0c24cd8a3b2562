//! An object of a store, as its scan found it.

use pt_object::{Algorithm, Contents, Rows};
use pt_tree::NamePath;

/// An object of a store, as its scan found it, and its place in a storage root.
#[derive(Drop)]
pub struct ScannedObject<'a> {
    /// Its identifier.
    pub id: &'a str,
    /// Its files, in the order of their logical paths.
    pub rows: &'a Rows,
    /// The contents of those rows.
    pub contents: &'a Contents,
    /// How many of the contents, from the first on, are known to stand at its place with the bytes
    /// that the source has.
    pub alike: usize,
    /// Whether a directory is known to stand at its place.
    pub stands: bool,
    /// The algorithm of its digests.
    pub algorithm: Algorithm,
    /// The path in the source of the directory that its logical paths begin in, from the source's
    /// top on.
    pub from: &'a NamePath,
    /// Its place in the root's tree, from the top of what is read there on.
    pub to: &'a NamePath,
}
