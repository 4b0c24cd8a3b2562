//! The machine that the program runs on: the one room for what isn't proved.
//!
//! Read `HostMachine` first, which hands the runtime on as all that the program asks for:
//!
//! ```rust
//! pt_cli::run(&HostMachine::new(&rt), &mut HostMachine::new(&rt))
//! ```
//!
//! No other crate has a call that leads to files, outputs, the environment or the clock: below stand
//! the traits alone, and what is made of their answers, which is proved. Here each call of such a
//! trait is a few lines, with what the system is asked in its comment, and nearly all their words
//! claim nothing (`⊤`). So most wrong bodies prove here. This crate is read, and tried on real
//! folders, instead; the wrong bodies in mutants/ are built, and each fails a case (`make mutants`).
//!
//! What is proved of it: the kind that a look tells is exactly that of the metadata (`IsKind` of
//! pt_folder), a file is opened for reading and made by the options that say just that
//! (`for_reading`, `for_making`), and what asking for a lock comes to is by the kind of what is
//! there, its names and the answer to asking for the lock (`SaysOfLocks` of pt_guard).
//!
//! What any system can be asked for stands over any runtime that has files (`Files`), so that tests
//! bring their own. What only the process has, as its terminals and locks, is `HostRuntime`'s.
//!
//! No guarantee of README rests on its definitions.
#![tactic(auto)]

mod beside;
mod host;
mod machine;
mod places;
mod started;
mod system;

pub use host::OutputFile;
pub use machine::HostMachine;
pub use places::OpenFolder;
pub use system::HostFile;
