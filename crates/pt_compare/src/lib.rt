//! An object that a scan of a store found, held against what stands at its place in a storage root.
//!
//! Read `compare` first. It takes the object as `ScannedObject` has it, and finds `Same`, `Absent`,
//! or at which path it differs and why:
//!
//! ```rust
//! let found = compare(alloc, &mut source, &mut root, &object)?;
//! ```
//!
//! What it promises, over any source and root:
//!
//! - `compare`: what it finds of an object is so, where the trees of both are told (`IsFound`).
//!   `Absent`: nothing stands at the place. `Same`: at every path from the place on stands what the
//!   object has there and nothing else, byte for byte, with an inventory that a run makes of these
//!   rows for some moment, message and user that it can be given. `Differs`: at the path that it
//!   names something is missing, of another kind, has other bytes, or is more than the object has;
//!   and all that a run makes before that path stands, or, where something is more, all that it
//!   makes (`IsFirst`). So each finding but `Same` excludes `Same`: a law
//!   (`standing_object_is_the_same`). Both trees are as they were; a device is blamed exactly where
//!   it failed.
//! - How an object is sought at its place: each item of the script by which a run would make it, in
//!   that order, and then what is left of the entries of its folders (`MeetsObject`).
//! - `find_kind`, and of an object's place `look_at_place`: over a root that tells, exactly what
//!   stands there; None where nothing does.
//! - The version's inventory passes exactly where, for some description of its version that a run
//!   can be given, it is the text of these rows with that (`IsMade`, `text_if_made`).
//!
//! Guarantees of README that rest on its definitions: An audit is exact.
#![tactic(auto)]

mod both_sides;
mod bytes;
mod comparing;
mod difference;
mod entries;
mod inventories;
pub mod laws;
mod meeting;
mod paths;
mod root;
mod scanned;
mod stop;

pub use bytes::{come_next, has_ended, rest_of};
pub use comparing::{compare, look_at_place};
pub use difference::{Comparison, Difference, Why};
pub use paths::content_path;
pub use root::{find_kind, open_standing};
pub use scanned::ScannedObject;
