//! When the calls of a system in memory fail, and how much a read or a write takes.
ghost use Rattle.std.specs.Prelude.{◌<◌, ◌≤◌};
ghost use Rattle.std.specs.IoError.{error_kind};
ghost use Rattle.pt_folder.specs.Folder.{IsAbsent};

use std::cell::Cell;
use std::io;

/// How many more calls pass, if they end, and how many bytes a read or a write takes at most.
#[derive(Drop)]
pub struct Faults {
    left: Cell<Option<u64>>,
    made: Cell<u64>,
    most: Cell<usize>,
}

impl Faults {
    /// No call fails, and each read and write takes all that it can.
    pub fn new() -> Faults {
        Faults {
            left: Cell::new(None),
            made: Cell::new(0),
            most: Cell::new(usize::MAX),
        }
    }

    /// After `Some(k)` the next k calls pass, and each later one fails; after `None` none does.
    pub fn fail_after(&self, calls: Option<u64>) {
        self.left.set(calls);
    }

    /// A read or a write takes at most so many bytes, and at least one.
    pub fn take_at_most(&self, most: usize) {
        self.most.set(most);
    }

    /// How many calls were made, up to 2^64 - 1.
    pub fn calls(&self) -> u64 {
        self.made.get()
    }

    // Counts a call, and answers whether it fails.
    pub(crate) fn fails(&self) -> bool {
        self.made.set(self.made.get().saturating_add(1));
        match self.left.get() {
            None => false,
            Some(0) => true,
            Some(left) => {
                self.left.set(Some(left - 1));
                false
            }
        }
    }

    // How many of so many bytes are taken; some, where there are some.
    pub(crate) fn share(&self, len: usize) -> usize
        ensures most { result ≤ len }
        ensures some { 0 < len → 0 < result }
    {
        len.min(self.most.get().max(1))
    }
}

/// The error of a call that fails.
pub fn call_error() -> io::Error
    ensures { ¬ (IsAbsent (error_kind result)) }
{
    io::Error::from(io::ErrorKind::Other)
}
