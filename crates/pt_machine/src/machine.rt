//! The type of the machine, and what of the runtime any program has.
ghost use Rattle.std.specs.Prelude.{◌≡◌};

use std::alloc::{Alloc, AllocGlobal, Global};
use std::fmt::Display;
use std::io;
use std::rt::Clock;
use std::time::Duration;

/// The runtime as a machine. It holds nothing else.
#[derive(Drop)]
pub struct HostMachine<'a, R> {
    pub(crate) rt: &'a R,
}

impl<'a, R> HostMachine<'a, R> {
    /// This runtime as a machine.
    pub fn new(rt: &'a R) -> HostMachine<'a, R>
        ensures { result ≡ record { rt = rt.entry } }
    {
        HostMachine { rt }
    }
}

impl<'a, R: AllocGlobal> Alloc for HostMachine<'a, R> {
    type A = Global;

    // Memory of the process.
    fn alloc(&self) -> Global {
        self.rt.alloc()
    }
}

impl<'a, R: Clock> Clock for HostMachine<'a, R> {
    // The clock that never goes back.
    fn monotonic(&self) -> io::Result<Duration> {
        self.rt.monotonic()
    }

    // The clock of the day.
    fn since_1970(&self) -> io::Result<Duration> {
        self.rt.since_1970()
    }
}

impl<'a, R: Eprint> Eprint for HostMachine<'a, R> {
    // Written to standard error.
    fn eprint<D: Display + Drop>(&self, value: D) -> io::Result<()> {
        self.rt.eprint(value)
    }

    // Written to standard error, with a line end.
    fn eprintln<D: Display + Drop>(&self, value: D) -> io::Result<()> {
        self.rt.eprintln(value)
    }
}
