//! Names, paths and listings, and what a source, a destination and a log are: the traits over which
//! the crates above are generic, for folders of the system as for trees in memory.
//!
//! Read `Source` first, then `Dest` and `Log`. So a directory is listed and a file is read:
//!
//! ```rust
//! let listing = source.list(&NamePath::of_text(alloc, b"pairtree_root/xt")?)?;
//! source.open(&NamePath::of_text(alloc, b"pairtree_version0_1")?)?;
//! let mut block = Block::new();
//! source.next(&mut block)?;
//! ```
//!
//! What it promises:
//!
//! - `Name::of` accepts exactly 1 to 255 bytes of UTF-8 without `/` and NUL that are neither `.`
//!   nor `..`. A `NamePath` is the list of its names; a `Listing` that of its names and kinds,
//!   which rise.
//! - A device may tell, by a ghost member (`told`), what it holds: it is `Some` of that, or `None`,
//!   which claims nothing. The contracts of `Source`, `Dest` and `Log` say exactly what each call
//!   gives and leaves, as one equation on it.
//! - No call of a source or destination changes whether it tells, and no call changes a source's
//!   tree; a log that tells goes on telling. A failed call leaves what was told as it was, but that
//!   a failed `append` or `put` leaves a part of its piece, from its start.
//! - Told or not, `Device` comes only where the count of failures rose or stood at its greatest
//!   value.
//! - In each directory of a told source's tree the names rise, and a told destination has a folder
//!   above each entry: the traits themselves promise this.
//! - `Ignoring` is a source without the entries of some names, and `Watched` one of whose calls a
//!   `Watcher` is told. A source that is `ListsNamed` lists past entries whose bytes are no name.
//! - `WriterLog` is a log over any writer.
//!
//! All guarantees of README rest on its definitions.
#![tactic(auto)]

mod dest;
mod faults;
mod ignored;
mod ignoring;
mod kind;
mod known;
mod listing;
mod log;
mod name;
mod name_list;
mod name_path;
mod named;
mod pieces;
mod short;
mod source;
mod watched;
mod writer_log;

use arrayvec::ArrayVec;
pub use dest::Dest;
pub use faults::{MemoryFault, TreeFault};
pub use ignored::Ignored;
pub use ignoring::Ignoring;
pub use kind::Kind;
pub use known::KnownName;
pub use listing::{Listing, ListingFault};
pub use log::Log;
pub use name::{Name, NameFault};
pub use name_path::NamePath;
pub use named::ListsNamed;
pub use source::Source;
pub use watched::{Watched, Watcher};
pub use writer_log::{WriterLog, write_out};

/// How many bytes are read at a time, at most.
pub const BLOCK: usize = 8192;

/// What is read at a time: up to `BLOCK` bytes.
pub type Block = ArrayVec<u8, BLOCK>;
