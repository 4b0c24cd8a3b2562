//! What a call left that failed after the system had done its part.
use pt_tree::NamePath;

/// What a call left that couldn't put onto the disk what the system had done.
#[derive(Drop)]
pub enum UnsyncedChange {
    /// The file at this path was closed.
    Closed(NamePath),
    /// What stood at the first path stands at the second.
    Moved(NamePath, NamePath),
}
