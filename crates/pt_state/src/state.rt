use crate::{Job, Report};
use pt_name::UnmetIdentifiers;
use pt_object::{Contents, Hasher, Rows};
use pt_tree::Block;
use pt_walk::Trail;
use std::alloc::Global;

/// What a run holds between two turns.
#[derive(Drop)]
pub struct State {
    /// What the run asks for memory.
    pub alloc: Global,
    /// What the run has to do.
    pub job: Job,
    /// What stands in front of each identifier; at most 1,024 bytes.
    pub prefix: String,
    /// The listings from `pairtree_root` to where the run stands.
    pub trail: Trail,
    /// The files of the object that is being carried, as they were read.
    pub rows: Rows,
    /// Which of them are stored.
    pub contents: Contents,
    /// What was read last.
    pub block: Block,
    /// What was read of the open file; and from the version's inventory on the text of that, whose
    /// digest both sidecars have.
    pub hasher: Hasher,
    /// The identifiers of the share's list of which no object was met, from the first turn on.
    pub unmet: UnmetIdentifiers,
    /// How many lines of each kind were put, and how many turns were made.
    pub counts: Report,
}
