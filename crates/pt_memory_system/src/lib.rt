//! A system in memory that keeps the laws, for tests: one folder that is only read, and one that is
//! written. No code of the program needs it; it shows that the laws can be kept together.
//!
//! ```rust
//! let faults = Faults::new();
//! let root = MemDest::new(alloc);
//! let system = MemorySystem::new(alloc, &faults, ("store", store), ("root", root));
//! faults.fail_after(Some(9)); // Nine calls of the system pass, and each later one fails.
//! ```
//!
//! What it promises:
//!
//! - `MemorySystem`: a `System` of pt_folder whose folder at one path is only read, and whose
//!   folder at another is written; it tells both. It keeps to every law
//!   (crates/pt_memory_system/specs/Keeping.antt): a call that looks, tells a length or opens
//!   changes nothing at all (`Looks`, `Measures`, `Opens`, `OpensDir`); one that makes or moves
//!   leaves exactly the tree that it says, or after an error the one that was; a write leaves what
//!   it says, or after an error a part (`MakesDir`, `MakesFile`, `Moves`, `Writes`). Any call may
//!   fail by the contracts; that each succeeds where it can is tested.
//! - `MemorySystem::new`: none where one path begins with the other. `take`: the system as it was.
//! - `Faults` says when calls fail and how much one read or write takes. It is shared, so no
//!   contract says what it holds.
//!
//! No guarantee of README rests on its definitions.
#![tactic(auto)]

mod faults;
mod file;
mod names;
mod parse;
mod system;

pub use faults::Faults;
pub use file::MemFile;
pub use names::MemNames;
pub use system::MemorySystem;
