use crate::Text;
use pt_host::{AuditOptions, CheckOptions, RunOptions};
use pt_name::Layout;

/// What the words ask the program to do.
#[derive(Debug, Drop)]
pub enum Command {
    /// Write the two names of an identifier, or of those on the input.
    Names(NamesArgs),
    /// Carry a Pairtree store into a storage root.
    Migrate(Migrate),
    /// Hold a storage root against a Pairtree store.
    Audit(Audit),
    /// Tell what in a Pairtree store would stop a run or surprise its owner.
    Check(CheckArgs),
}

/// An identifier whose names are asked for.
#[derive(Debug, Drop)]
pub struct NamesArgs {
    /// The identifier, which isn't empty; `-` stands for those on the input.
    pub id: Text,
    /// What is put before it for its place.
    pub prefix: Text,
    /// How its place is cut.
    pub layout: Layout,
}

/// A migration, as the words ask for it.
#[derive(Debug, Drop)]
pub struct Migrate {
    /// What the options say, or mean where they aren't given.
    pub options: RunOptions,
    /// The folder that holds `pairtree_root`.
    pub source: Text,
    /// The folder in which `ocfl` is, or comes to be.
    pub dest: Text,
    /// The path of a list of the identifiers that are carried, if one is named.
    pub list: Option<Text>,
}

/// An audit, as the words ask for it.
#[derive(Debug, Drop)]
pub struct Audit {
    /// What the options say, or mean where they aren't given.
    pub options: AuditOptions,
    /// The folder that holds `pairtree_root`.
    pub source: Text,
    /// The folder in which `ocfl` is.
    pub dest: Text,
    /// The path of a list of the identifiers that are audited, if one is named.
    pub list: Option<Text>,
}

/// A check, as the words ask for it.
#[derive(Debug, Drop)]
pub struct CheckArgs {
    /// What the options say, or mean where they aren't given.
    pub options: CheckOptions,
    /// The folder that holds `pairtree_root`.
    pub source: Text,
    /// The path of a list of the identifiers whose objects are checked, if one is named.
    pub list: Option<Text>,
}
