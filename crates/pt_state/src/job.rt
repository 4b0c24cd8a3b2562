use pt_name::{Layout, Share};
use pt_object::{Algorithm, Meta};
use pt_walk::Limits;

/// What a run has to do, beside its source, destination and log.
#[derive(Debug, Drop)]
pub struct Job {
    /// When, by whom and why the objects' versions were made.
    pub meta: Meta,
    /// Where objects lie in the storage root.
    pub layout: Layout,
    /// The algorithm of the inventories' digests.
    pub algorithm: Algorithm,
    /// What an object, the walk and the run may have at most.
    pub limits: Limits,
    /// Whether a site that holds more than one directory beside its shorties is carried as an
    /// object of its own.
    pub gather: bool,
    /// The share of the store that is carried; another share's objects are passed without a line.
    pub share: Share,
}

/// How far a run is: its lines of each kind, and the turns that it made.
#[derive(Clone, Copy, Debug, PartialEq, Eq)]
pub struct Report {
    /// The objects that were carried.
    pub done: u64,
    /// Those whose place was taken.
    pub present: u64,
    /// The sites and shorties that were passed over.
    pub skipped: u64,
    /// The turns that were made, a faulty one among them.
    pub turns: u64,
}
