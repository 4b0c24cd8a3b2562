//! `pairtree2ocfl`: reads a Pairtree 0.1 preservation store and writes an OCFL 1.1 storage root.
//!
//! ```text
//! pairtree2ocfl migrate --created 2024-05-01T12:00:00Z --name 'Ada Lovelace' SOURCE DEST > run.log
//! ```
//!
//! `main` hands the runtime to `pt_cli::run` as a machine, and has no contract of its own: it is one
//! call, and the only function that has the runtime whole, so what else it might do people read. So
//! it is with the machine (pt_machine), which hands each call on in a few lines.
#![tactic(auto)]

use pt_machine::HostMachine;
use std::process::ExitCode;

fn main(rt: HostRuntime) -> ExitCode {
    pt_cli::run(&HostMachine::new(&rt), &mut HostMachine::new(&rt))
}
