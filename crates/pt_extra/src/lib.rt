//! What a storage root has and its store lacks: a walk over the root that stands, which leads each
//! object's identifier back to where the store would hold it; and an audit that tells of it too.
//!
//! Read `audit` first, then `Extras`, the walk over the root (walking.rt):
//!
//! ```rust
//! let end = audit(alloc, devices, task, true, &observer); // With extras.
//! let counts = end.ran?;
//! ```
//!
//! What it promises, over any store, root and log:
//!
//! - `audit` (`AuditsDevices`), with extras: behind the lines of all objects of the store
//!   (`IsAllTold` of pt_audit) the log has got those of just what is found, and then the end line,
//!   with the numbers of all (`IsExtraLog`). After a fault it has got a front of that
//!   (`IsExtraLogSoFar`). Only where the root failed may a folder have lines of why it couldn't be
//!   listed in place of what is found of it (`IsToldIn`). Without extras it is an audit of
//!   pt_audit. Its other promises are those of an audit either way, but that the root may have
//!   failed so without a fault (`AuditBlames`).
//! - `run`, where it answers Ok, and the trees of store and root and the log are told: the log has
//!   got the lines of just what is found (`found_in`), in the order of the names, a folder's before
//!   what comes behind it; and the numbers are those of the lines. After a fault it has got a front
//!   of these. A folder that couldn't be listed is told as by `audit`.
//! - Store and root are the same, with the same trees, and what stood in the log stands (`Keeps`).
//!   A device is blamed only where it failed, and one that failed is, but for a root that couldn't
//!   list a folder and told so (`FailsPast`); `Dest` is the root's fault, and else `Memory` is
//!   answered only where a growth was refused.
//! - Each finding of the whole store is found by just one of its shares by folders, and by these
//!   nothing else is (`folder_shares_find_the_whole`).
//! - A walk is its devices, job, prefix and numbers (`IsOnlyWalk`). While it runs it holds beside
//!   them, which isn't proved, the at most 34 listings on the way, and an inventory, with room for
//!   8 MiB more, in whose place its identifier or line is made; or the names of one folder.
//!
//! Guarantees of README that rest on its definitions: An audit is exact.
#![tactic(auto, using(pt_compare::proofs::Reading::calls))]

mod auditing;
mod devices;
mod identifier;
mod inventory;
pub mod laws;
mod lexemes;
mod lines;
mod listing;
mod numbers;
mod parts;
mod shares;
mod spelling;
mod store;
mod strings;
mod tokens;
mod walking;
mod words;

pub use auditing::{AuditCounts, AuditEnd, audit};
pub use devices::ExtraDevices;
pub use numbers::ExtraNumbers;
pub use walking::Extras;
