//! What a run holds, the calls that it makes of its devices, and the lines that it puts: what the
//! turns of pt_scan and pt_make are made with.
//!
//! Read `State` first, and then `Io`, the three devices as one (`Devices`):
//!
//! ```rust
//! let mut out = Devices { source: &mut source, dest: &mut dest, log: &mut log };
//! let listing = out.list(&path)?; // Of the source: where that fails, the run halts for it.
//! put_skip(state.alloc, &mut out, &at, Cause::Empty, &mut state.counts)?;
//! ```
//!
//! What it promises:
//!
//! - A call of the devices as one (`Io`) did what it was asked, or it failed, changed nothing or
//!   left a part of its piece, and halts the run for that device (`Called`, `Listed`, `Found`,
//!   `Wrote`, `Told`).
//! - A line is counted exactly where its `put` was answered Ok.
//!
//! Guarantees of README that rest on its definitions: Complete, Readable as OCFL, No half objects,
//! Run it again, The log is true, It ends, and stays small, An audit is exact.
#![tactic(auto, using(crate::proofs::StateRules::state_rules))]

pub mod files;
mod job;
pub mod lines;
pub mod outside;
pub mod paths;
pub mod site;
mod state;
mod telling;

pub use job::{Job, Report};
pub use outside::{Devices, Io};
pub use state::State;
pub use telling::as_told;
