//! Devices in memory, for tests: a source, a destination and a log that tell what they hold, a
//! source whose tree changes, and one of which something can't be read. No code of the program
//! needs them.
//!
//! A store is made of a line of text, and its devices fail where a test wants it:
//!
//! ```rust
//! let mut source = texts::store(alloc, "xt/12/t3/xt12t3/a.txt=abc xt/12/t3/xt12t3/b.txt*9000")?;
//! let mut dest = MemDest::new(alloc);
//! dest.fuse(Some(7)); // Seven calls of the trait pass, and each later one fails.
//! ```
//!
//! What it promises:
//!
//! - `MemSource`, `MemDest`, `MemLog`: tell what they hold, and meet the traits. Each call's
//!   contract gives the exact new state, by the fuse too (clauses `gives` and `puts`): which calls
//!   pass, and that a failing `append` leaves half of its piece, a failing `put` what fits.
//! - `take_away`, `plant_file`, `plant_dir`, `plant_other`: give the exact new tree, or refuse in
//!   order and leave all.
//! - `kind_at`, `listing`: exactly what stands at a path, by no call of the trait. `add_to`,
//!   `add_part`: exactly the tree with a piece, or its first bytes, behind a file's, whichever file
//!   is open.
//! - `pieces`: exactly the next bytes of a file, and names as a directory of the system gives them.
//! - `same`: true exactly where the trees are equal. `has_file`, `has_dir`, `may_make`, `may_move`:
//!   true exactly where the calls that need it may be made.
//! - `LooseSource`: tells nothing; its file changes after a given number of calls (`swap_after`),
//!   and each call's effect on it is exact.
//! - `SpoiledSource`: a `MemSource` of which what stands at some paths can't be listed or read, and
//!   no entry there looked at; each call's effect on it is exact.
//! - Without a fuse a `MemSource` tells that it never fails, and a `SpoiledSource` that it fails at
//!   these paths and nowhere else.
//!
//! No guarantee of README rests on its definitions.
#![tactic(auto)]

mod changes;
mod entries;
mod fuse;
mod loose_source;
mod mem_dest;
mod mem_log;
mod mem_source;
mod moving;
mod opening;
pub mod pieces;
mod planting;
mod spoiled_source;
pub mod texts;

pub use loose_source::{LooseSource, SwapFault};
pub use mem_dest::{MemDest, TakeFault};
pub use mem_log::MemLog;
pub use mem_source::MemSource;
pub use planting::PlantFault;
pub use spoiled_source::SpoiledSource;
