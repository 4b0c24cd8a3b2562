//! A check of a store: one walk over all that lies below pairtree_root, which tells what would stop
//! a run or surprise its owner, and goes on past what can't be read.
//!
//! Read `Check::run` first (checking.rt), and `Trouble`, which lists what it tells:
//!
//! ```rust
//! let mut check = Check::new(alloc, CheckDevices { source, log, explains }, wants); // Of all.
//! let mut check = check.of_share(share); // Of a share, where that is wanted.
//! let numbers = check.run()?; // What the last line of the log has.
//! ```
//!
//! What it promises, over any source and any log:
//!
//! - Where it ends well and the source tells (`ChecksShare`), each entry of each folder at or below
//!   pairtree_root that could be listed was visited once (`Visits`), and exactly what there is to
//!   tell of it was told (`Tells`). What can't be listed, opened or read is told with a reason, and
//!   the walk goes on. Of a share only its own is told and counted (`is_own_in`, `is_own_entry`),
//!   and no folder walked that the share doesn't walk (`is_walked`); `Checks` is of the whole.
//! - Where the source fails at nothing it does its steps (`CheckDoesItsSteps`), and all shares do,
//!   and count, together those of the whole (`CheckSharesDoTheWhole`, `CheckSharesAddUp`).
//! - Where a check of the whole told nothing there is nothing to tell of the store, and no call of
//!   the source failed (`QuietCheckMeansCleanStore`). No run passes an object of it over for
//!   `other` (`NoRunSkipsForOther`), nor, with the limits that it is held against (the greatest of
//!   pt_walk) and its files read whole, anything for `limit` (`NoRunSkipsForLimit`), nor, with its
//!   tuples, for `reserved` (`NoRunSkipsForReserved`). A check for runs that gather says both of
//!   these alone.
//! - Where it read the files whole, a source that tells where it fails fails at nothing that a run
//!   asks it for (`QuietCheckMeansReadableStore`), so a run over that store that fails at nothing
//!   else raises no count of failures of it (`NoRunFailsForSource`).
//! - It answers `Log` only where the log's count of failures rose, `Memory` only where it stayed,
//!   and no other fault (`LogFailsAs`). Whatever it answers, the source tells the same tree as
//!   before, and the log is the same one, in which stands what stood (`Keeps`).
//! - A file's length is told only if it is read whole. `meeting` says what of a list is left unmet.
//!
//! No guarantee of README rests on its definitions.
#![tactic(auto)]

mod breakdown;
mod checking;
mod devices;
mod end_key;
mod folder_listing;
mod judging;
pub mod laws;
mod line_kind;
mod lines;
mod numbers;
mod prefix;
mod reading;
mod shares;
mod telling;
mod top;
mod trouble;
mod unlisted;
mod wants;
mod within;

pub use breakdown::Breakdown;
pub use checking::Check;
pub use devices::CheckDevices;
pub use end_key::{EndKey, EndPart};
pub use folder_listing::{FolderListing, ListedEntries};
pub use line_kind::LineKind;
pub use numbers::Numbers;
pub use trouble::Trouble;
pub use unlisted::{Explains, UnlistedFolder};
pub use wants::Wants;
pub use within::{FoundFolder, Part, Within};
