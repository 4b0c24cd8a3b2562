//! What follows from the public contracts of this crate, each by a short function: examples for who
//! calls a run. No code stands on them.
//!
//! - `carries_all`: where it answers true, and all three tell, the root holds all objects that are
//!   carried, each whole, nothing else is changed, and the log has all lines.
//! - `lines_told`, over every devices, though they tell nothing: the lines before the end line are
//!   no more than the limit of turns.
//! - `Run` owns a run under way and its devices; `with_log` exchanges a log that tells nothing for
//!   another; `step` keeps all that a step promises, from whatever start the run is in progress,
//!   and `make_steps` makes so many steps. `measure_steps` makes so many too, and gives the most
//!   records that the run held after one, and its turns: where the source tells, the records are
//!   within its bound, and where the destination told too, the turns within the work.
//! - `carry_through` makes a run, and after each fault takes the staging folder away and makes
//!   another, so many in all, over any devices. Where all three tell and a run could end well, it
//!   answers true only where the destination holds what one undisturbed run leaves: whatever faults
//!   there were, and wherever they came.
mod anew;
mod ending;
mod owning;

pub use anew::{Attempts, Jobs, Mendable, carry_through};
pub use ending::{carries_all, lines_told};
pub use owning::{Most, Run};
