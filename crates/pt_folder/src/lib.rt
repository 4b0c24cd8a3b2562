//! Folders of the system as source and destination of a run.
//!
//! Read `HostSource` and `HostDest` first; `System` has the calls that they make:
//!
//! ```rust
//! let mut store = HostSource::new(system, alloc, "store");
//! let listing = store.list(&NamePath::new(alloc))?;
//! let mut root = HostDest::new(system, alloc, "root").with_sync(true);
//! root.mkdir(&NamePath::of_text(alloc, b"ocfl")?)?;
//! ```
//!
//! What it promises, over any system (`System`, `Handle`, `Input`):
//!
//! - A system may keep the tree of a folder that is read (`forest`), and of one that is written
//!   (`kept`). Its calls keep a law each then, as POSIX has them (SourceLaws.antt and DestLaws.antt
//!   of specs/). One that keeps none tells nothing (Untold.antt).
//! - A system may tell at which paths below a folder that is read it fails (`failing`). Its calls
//!   keep a law each then too (FailingLaws.antt of specs/).
//! - `HostSource` tells the system's tree, and what isn't read of the open file. It fails just
//!   where its system tells that it does, if that tells it. It meets `Source`.
//! - `HostDest` tells the system's tree and the path of the open file. It meets `Dest`. After any
//!   number of calls it is over the same folder and set as it was, and the system is in the state
//!   to which those calls led, one after another (`Steps`).
//! - The contract of each call says which calls of the system it makes, in which order, and what
//!   becomes of their answers.
//! - A failure is counted, a fault leaves the block empty, a failed call leaves the open file open,
//!   and reading and writing go on past short reads and writes.
//! - With `with_sync` a file is put onto the disk before it is closed, and a directory after
//!   something was moved into it; what couldn't be is unsynced, and each further call is refused.
//! - `last_failure`: after each call that answers `Device` just that failure, its path and its
//!   cause.
//!
//! Guarantees of README that rest on its definitions: An audit is exact.
#![tactic(auto)]

mod bytes;
mod dest;
mod failure;
mod folder;
mod listing;
mod moving;
mod parting;
mod reading;
mod source;
mod syscalls;
mod system;
mod taking;
mod unsynced_change;
mod writing;

pub use dest::HostDest;
pub use failure::{Failure, FailureReason};
pub use source::HostSource;
pub use system::{Handle, Input, System};
