//! What an OCFL object is made of: digests by blocks, the two tables of its files, and the texts of
//! its inventory, sidecars and declarations. The module `table` has the contents and the index by
//! which a digest is found among them, `inventories` how an inventory's text is made of rows and
//! contents; each other file is what its name says.
//!
//! Read `inventory` first, which makes the text of all that the tables hold. So its sidecar is
//! made:
//!
//! ```rust
//! let mut hasher = Hasher::start(Algorithm::Sha512);
//! hasher.feed_bytes(text.as_bytes());
//! let sidecar = sidecar_of(alloc, &hasher.end())?;
//! ```
//!
//! What it promises:
//!
//! - `Hasher` (`feed`, `feed_bytes`, `end`): the digest of the blocks and pieces joined. It is its
//!   core, and nothing else (`IsItsCore`). `Digest`: its bytes, with their order and their hex.
//! - `WellKnownName`: the names of a store's, a root's and an object's own entries are names, with
//!   these texts.
//! - `Rows`, `Contents`: the lists that they say. `note`: adds a digest exactly where no earlier
//!   one is equal. `first_counted`: finds it with at most as many comparisons as the length has
//!   binary digits.
//! - `Meta::of`: accepts exactly the moments of RFC 3339 to the second with a date of the calendar,
//!   and a name that isn't empty.
//! - `inventory`: exactly the inventory's text over the rows. `InventoryPieces`: its pieces, none
//!   of them empty and each a text, which one behind the other are that text. `sidecar`,
//!   `sidecar_of`, `root_files`, `object_declaration`, `root_declaration`: exactly their bytes, as
//!   docs/REFERENCE.md has them, for every layout.
//! - Laws (laws.rt): an object and a root can be made item by item (`script_can_be_made`), and so
//!   they are made, and nothing else (`script_makes_the_object`, `root_script_makes_the_root`);
//!   read as JSON an inventory gives its tree (`inventory_reads_as_its_tree`), and its state is the
//!   object's files, where no two whose bytes differ have one digest (`state_is_the_files`).
//!
//! Guarantees of README that rest on its definitions: Complete, Readable as OCFL, Nothing is lost,
//! No half objects, Run it again, The log is true, It ends, and stays small, An audit is exact,
//! Shares are the whole.
#![tactic(auto)]

mod algorithm;
mod digest;
mod digits;
mod files;
mod hasher;
mod inventories;
pub mod laws;
pub mod members;
mod meta;
mod moment;
mod root;
mod rows;
mod table;
mod well_known;

pub use algorithm::Algorithm;
pub use digest::Digest;
pub use files::{object_declaration, root_declaration, sidecar, sidecar_of};
pub use hasher::Hasher;
pub use inventories::{InventoryInput, InventoryPieces, inventory};
pub use meta::{Meta, MetaFault};
pub use root::{RootFiles, root_files};
pub use rows::{Row, Rows};
pub use table::{Content, Contents};
pub use well_known::WellKnownName;
