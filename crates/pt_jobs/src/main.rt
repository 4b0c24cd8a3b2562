//! The jobs that a user waits for, over stores that are made from a number, by the program's own
//! calls. It prints a digest of the calls that the machine was asked for, with their paths, of what
//! was written, of the log, and of the statuses.
#![tactic(auto)]

mod builder;
mod content;
mod draw;
mod jobs;
mod machine;
mod stores;
mod system;
mod trace;
mod tree;

use std::alloc::AllocGlobal;
use std::process::ExitCode;
use std::{env, io};

fn main(rt: HostRuntime) -> io::Result<ExitCode> {
    let words: Vec<String> = env::args(&rt)?.collect(rt.alloc())?;
    match jobs::read_words(&words).and_then(|asked| jobs::done(&rt, asked)) {
        Some(digest) => {
            println!(rt; "{digest:016x}")?;
            Ok(ExitCode::from(0))
        }
        None => {
            println!(rt;
                "usage: pt_jobs carry|rehearse|audit STORES books|many|wide|deep|neglected SIZE SEED"
            )?;
            Ok(ExitCode::from(2))
        }
    }
}
