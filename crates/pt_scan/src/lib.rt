//! The turns that look at the source: whether it is a Pairtree store, the walk through the sites,
//! the judging of each, and the scan of an object.
//!
//! Read `walk` first, which looks at the next entry of a site, then `judge` and `scan`. Each
//! function is called at the phase that it is named for, by `turn_at` of pt_move, and gives the
//! phase that is next:
//!
//! ```rust
//! Phase::Walk => walking::walk(state, out),
//! ```
//!
//! What it promises:
//!
//! - Each function makes a turn of the definitions of pt_plan, from the phase that it is named for,
//!   with the same answer, and calls the source and looks at the destination at most as often as
//!   they say (`TakesTurn` of pt_state).
//! - After a file was read on the block that is held is the file's next one.
//!
//! No guarantee of README rests on its definitions.
#![tactic(auto, using(crate::proofs::ScanRules::scan_rules))]

pub mod judging;
pub mod reading;
pub mod scanning;
pub mod store;
pub mod walking;
