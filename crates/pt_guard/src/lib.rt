//! What is seen to before a run or an audit: that its two folders lie apart, that the second is no
//! storage root itself, and that nobody has the destination who keeps it from there.
//!
//! Read `begin` first; what it gives holds the destination's lock, and is given back at the end:
//!
//! ```rust
//! let lock = begin(&mut system, alloc, Claim::Alone, "store", "root")?;
//! // Here the run is made.
//! if let FolderLock::Held(lock) = lock {
//!     system.release(lock);
//! }
//! ```
//!
//! What it promises:
//!
//! - `begin` answers `Overlap` exactly where a path leads to the other's place or below it, or a
//!   folder on the way is the other's (`Overlaps`); `Hidden` exactly where what stands can't be
//!   resolved or told.
//! - It answers `Root` exactly where the folders lie apart and asking for the destination's lock
//!   comes to this: it is a storage root or an object itself, and the lock isn't asked for.
//! - It answers `Taken` exactly where the lock, asked for alone or to be shared (`Claim`), is
//!   another's so that it can't be had (`Begins`). It goes on where a path leads nowhere, or the
//!   folder can't be locked, and says why.
//! - An error by which the system wants memory (`IsWanting`) is none of these, but `Memory`, after
//!   which nothing more is asked; else that is answered only where nothing was asked yet (`Wants`).
//! - `hold_folder` asks for a lock by the calls of a system: whether it is a folder first, then for
//!   its names, and then for the lock (`AsksFolder`).
//! - A lock that is held is no value that may be dropped: it is given back by `release` (`Places`).
//! - `judge_file` answers `Inside` exactly where a file's folder leads to the store, to its tree or
//!   to what the destination is to hold, or below one, or where the file would be one of the last;
//!   where there is no destination, of the first two alone (`JudgesFile`); `Hidden` exactly where that can't be told. Nothing is asked of the file
//!   itself.
//!
//! That nothing is lost, and that a run can be made again, is said of a destination into which
//! nobody else writes, and of a store that isn't in it: that is seen to here.
//!
//! No guarantee of README rests on its definitions.
#![tactic(auto)]

mod apart;
mod declared;
mod file;
mod guard;
mod holding;
mod places;

pub use file::{FileFault, judge_file};
pub use guard::{FolderLock, GuardFault, begin};
pub use holding::{FolderCalls, Lockable, LocksFolders, hold_folder};
pub use places::{Claim, FileId, LockAttempt, Places};
