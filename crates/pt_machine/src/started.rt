//! How the program was started: its words and its input.
ghost use Rattle.std.specs.Prelude.{⊤};

use crate::machine::HostMachine;
use pt_cli::{HasInput, Invocation};
use std::alloc::{AllocGlobal, Global};
use std::env::Env;
use std::{env, io};

impl<'a, R: Env + AllocGlobal> Invocation for HostMachine<'a, R> {
    ghost starts = { λ _ _. ⊤ };

    // The words of the process.
    fn words(&self, alloc: Global) -> io::Result<Vec<String>> {
        Ok(env::args(self.rt)?.collect(alloc)?)
    }
}

impl<'a, R: io::Input> HasInput for HostMachine<'a, R> {
    type Input = R::Reader;

    ghost gives = { λ _ _ _. ⊤ };

    // Standard input.
    fn input(&mut self) -> R::Reader {
        self.rt.reader()
    }
}
