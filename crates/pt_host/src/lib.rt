//! A migration from folder to folder as the command asks for it, an audit, and a check: what is
//! seen to before it, what it is made over, and what it ends with.
//!
//! Read `run_guarded` first, and then `Host`, the machine that it is made on (host.rt):
//!
//! ```rust
//! let status = run_guarded(&rt, &mut host, options, "store", "root"); // 0 where all was carried.
//! ```
//!
//! What it promises, on every machine; no call of these functions but the machine's can change a
//! file or write to the output:
//!
//! - `run_guarded` says which run is made (`Runs`). The guard is asked first, with the lock for
//!   this run alone; where it refuses, that is the status, and nothing more is asked but to tell
//!   why. Else the run is made over what is lent, and then the lock is given back, not before what
//!   was lent is back. With it comes all that `Migrates` of pt_move promises, and the status by its
//!   answer (`run_status`), with a list by what is unmet too (`EndsWithList`).
//! - `audit_guarded`: the guard, with a lock that others may share, the audit over what is lent,
//!   which is given back, and the lock (`Audits`, `AuditsOver`).
//! - `check_store`: the check of the share that is asked for, over SOURCE and the output, which are
//!   lent and given back; it asks for no lock (`ChecksStore`, `ChecksOver`).
//! - The fault that ended one of these is told once, by its own line (`TellsEnd`); so is why one
//!   may not begin (`refusal_line`), and why there is no event (`TellsEvent`).
//! - Where a file is named for its event, each is recorded in it, with its options (`IsRecorded`).
//! - A rehearsal leaves all that the system keeps of DEST (`LeavesKept`); where it and the run that
//!   it rehearses both end well, logs and statuses are the same (`RehearsalTellsTheRun`).
//! - `DurableLog`: a log whose lines are put onto the disk where it has a file (`IsPutBehind`).
//! - Where a check of a whole store read each file whole and told nothing, no run over it answers
//!   `Source`, if the source tells where it fails (`NoRunIsHaltedForSource`,
//!   `NoRunIsHaltedAfterQuietCheck`).
//! - The fault of an audit comes of what failed (`AuditFaultMeansFailedCall`). So do fault 3 of a
//!   run and a check (`LogFailsBy`), and 2 of a run (`DestFaultMeansFailedStep`) or a rehearsal.
//!
//! Guarantees of README that rest on its definitions: An audit is exact.
#![tactic(auto)]

mod account;
mod audit;
mod auditing;
mod checking;
mod devices;
mod durable_log;
mod event;
mod explaining;
mod folders;
mod guarded;
mod host;
pub mod laws;
mod machine;
mod operation;
mod options;
mod output;
mod quick_audit;
mod recorded_options;
mod room;
mod run;
mod running;
mod saying;
pub mod status;
mod stepped;
mod text;
mod traced;
mod unmet;

pub use audit::audit_guarded;
pub use checking::check_store;
pub use durable_log::{DurableLog, Syncs, SyncsOutput, Writes};
pub use event::EventFault;
pub use host::{Host, HostIo};
pub use machine::Machine;
pub use options::{AllowedLines, AuditOptions, CheckOptions, Feedback, RunOptions};
pub use output::{OutputCalls, open_output};
pub use pt_messages::{Progress, Reads, ReadsFiles, Terminals, VERSION};
pub use room::longest_made;
pub use run::run_guarded;
pub use saying::end_with_fault;
pub use text::Text;
