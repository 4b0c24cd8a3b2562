//! How a Pairtree is walked: what a site is, the limits of a run, and the trail of listings to
//! where the walk stands.
//!
//! Read `judge` first: it says of a site's listing whether that leads on, holds an object, or is
//! passed over, and for which `Cause`.
//!
//! ```rust
//! let finding = judge(&source.list(&site)?, At::Pair, Form::Plain);
//! if let Finding::Candidate(index) = finding {
//!     // The entry of this index, from 0 on, is the directory of an object.
//! }
//! ```
//!
//! What it promises:
//!
//! - `judge`: exactly what a site is found to be, gathering or not; below a name of one byte as
//!   below one of two (`pair_finds_as_last`). `is_shorty`: exactly whether an entry is a shorty.
//! - `Limits::of`: accepts exactly the limits in range. `Cause`: has its numbers and words.
//! - `Trail`: the list of the listings on the current path with their places; each call is one
//!   equation.
//! - Laws, for every proper tree: what of a walk is still to come at a trail, and how entering,
//!   advancing and leaving change it (`enters_the_next_site` and its neighbours); that an object's
//!   paths rise and none leads to another (`files_part_in_order`); that the sites are exactly the
//!   directories that shorties lead to (`listed_sites_are_reached`, `reached_sites_are_listed`).
//!
//! Guarantees of README that rest on its definitions: Complete, Readable as OCFL, No half objects,
//! Run it again, The log is true, It ends, and stays small, An audit is exact, Shares are the
//! whole.
#![tactic(auto)]

mod cause;
mod frame;
pub mod laws;
mod limits;
mod site;
mod trail;

pub use cause::Cause;
pub use limits::{Limits, LimitsFault};
pub use site::{At, Finding, Form, is_shorty, judge};
pub use trail::Trail;
