//! What an audit needs that compares names and lengths alone: a system seen by the lengths of its
//! files, none of which is opened, and an object held against what stands at its place by what two
//! sources over such systems show, with the digests that the inventory claims which stands there.
//!
//! Read `ByLengths` first, then `look_over`:
//!
//! ```rust
//! // One slash below `store` are the files at its top, and in `pairtree_root` all others.
//! let seen = ByLengths::new(system, 1, limits.file_bytes());
//! let mut store = HostSource::new(seen, alloc, "store");
//! // What is read of a file in `pairtree_root` is the text of its length, as `1560`.
//! let found = look_over(alloc, &mut store, &mut root, &object)?;
//! ```
//!
//! What it promises:
//!
//! - `ByLengths`: a `System` of pt_folder over one. It keeps that one's tree with the text of each
//!   file's length in the place of its bytes, where the file's path has more slashes than a limit
//!   (`forest_by`). Such a file is never opened: its length is asked for once (`Opens`), and while
//!   its text is read nothing is. No other call differs (`Asks`).
//! - Texts are equal only where the lengths are (`lengths_are_told`), and a text has more than
//!   `LONGEST_TEXT` bytes just where the length is over the greatest that is carried.
//! - A walk through a store that is seen so comes to the same directories with the same identifiers
//!   and causes (`items_are_seen`), and carries and refuses the same objects (`outcomes_are_seen`).
//! - `look_over`: what it finds is so, where the trees of both are told (`IsQuick`). `Same`: just
//!   where exactly the object stands at its place, if its files have some digests (`IsAlike`).
//!   `Absent`: just where nothing stands there. By lengths it finds the same what is the same
//!   (`quick_finds_the_same`), and what is alike is as long (`alike_files_are_as_long`).
//! - `claimed_rows`: the rows with the digests that an inventory's state has for their paths. One
//!   that was made of rows with these paths claims just theirs (`inventory_claims_its_rows`).
//!
//! Guarantees of README that rest on its definitions: An audit is exact.
#![tactic(auto)]

mod by_lengths;
mod claimed;
mod claims;
pub mod laws;
mod length_text;
mod quick;
mod readings;
mod seen_file;
mod slashes;

pub use by_lengths::ByLengths;
pub use claimed::{ClaimedFiles, claimed_rows};
pub use length_text::{LONGEST_TEXT, LengthText};
pub use quick::look_over;
pub use seen_file::SeenFile;
