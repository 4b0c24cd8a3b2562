//! The run: a store is walked, and each object is carried, turn by turn.
//!
//! Read `migrate` first, and then `turn_at` (turning.rt), which has what is done at each phase:
//!
//! ```rust
//! let report = migrate(alloc, &mut source, &mut dest, &mut log, job)?;
//! ```
//!
//! What it promises, over any source, destination and log; docs/GUARANTEES.md has it clause by
//! clause:
//!
//! - `migrate_observed` asks for nothing. It promises `MigratesOver`: each device stays, a source
//!   fails only where a run asks, and `Migrates` has the rest, each clause by its name, and which
//!   devices have to tell. An observer gets the report after each turn that goes on (`Observer`).
//!   `migrate` is that without one. At its end it says of which identifiers of the list no object
//!   was met (`LeavesUnmet`).
//! - `Mover::step` asks that the devices are those of the earlier steps, as those left them. It
//!   promises the same after each answer, against the start at which the run began (`Keeps`), and
//!   besides that what is held is within the bound, that it is the fields that are listed and
//!   nothing else (`HoldsNothingElse` of pt_state), and that the turns made are within the work.
//! - A step says which turn of the definitions it made (`MakesTurn`), and `migrate` of which turns
//!   the run was made (`IsRun`). `turn`: makes, for every phase and over any devices, a turn of
//!   pt_plan's definitions, with the same answer, and never answers `Turns` or `Ended`.
//! - What one turn puts into the log, if anything, is one line, byte for byte, which is counted
//!   under its kind where it was put whole. After a `put` that failed the log got a front of one
//!   line, and nothing is counted (`Tells`).
//! - `clients`: what follows from these for who calls a run, each by a short function. No code of
//!   the program stands on it.
//!
//! Guarantees of README that rest on its definitions: Complete, Readable as OCFL, Nothing is lost,
//! No half objects, Run it again, The log is true, Errors are true, It ends, and stays small, An
//! audit is exact.
#![tactic(auto, using(crate::proofs::MoveRules::move_rules))]

pub mod clients;
mod migration;
mod mover;
mod observer;
pub mod turning;

pub use migration::{Completion, migrate, migrate_observed};
pub use mover::{Mover, Turn};
pub use observer::{NoObserver, Observer};
pub use pt_plan::Fault;
pub use pt_state::{Job, Report};
