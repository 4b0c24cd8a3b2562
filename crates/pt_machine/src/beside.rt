//! What is read beside a run, and what is known of the terminals.
ghost use Rattle.std.specs.Prelude.{⊤};

use crate::machine::HostMachine;
use crate::system::{HostFile, reading};
use pt_host::{Reads, Terminals};
use std::alloc::Global;
use std::env::Env;
use std::fs::Metadata;
use std::io;
use std::io::IsTerminal;
use std::path::PathBuf;
use std::rt::Files;

impl<'a, R: Files> Reads for HostMachine<'a, R> {
    type Opened = HostFile<R::File>;

    ghost lengths = { λ _ _ _. ⊤ };

    ghost own_lengths = { λ _ _ _. ⊤ };

    ghost opens = { λ _ _ _. ⊤ };

    ghost leads = { λ _ _ _. ⊤ };

    // stat.
    fn file_length(&self, path: &str) -> io::Result<Option<u64>> {
        let metadata = self.rt.metadata(path)?;
        Ok(length_of_file(&metadata))
    }

    // lstat.
    fn own_length(&self, path: &str) -> io::Result<Option<u64>> {
        let metadata = self.rt.symlink_metadata(path)?;
        Ok(length_of_file(&metadata))
    }

    // open, to read.
    fn open(&self, path: &str) -> io::Result<HostFile<R::File>> {
        Ok(HostFile::new(self.rt.open_file(&reading(), path)?))
    }

    // realpath.
    fn find_place(&self, alloc: Global, path: &str) -> io::Result<PathBuf> {
        self.rt.canonicalize(alloc, path)
    }
}

// How many bytes a file has, if it is one.
fn length_of_file(metadata: &Metadata) -> Option<u64> {
    metadata.is_file().then_some(metadata.len())
}

impl<'a> Terminals for HostMachine<'a, HostRuntime> {
    // isatty.
    fn output_is_terminal(&self) -> bool {
        self.rt.stdout().is_terminal()
    }

    // isatty.
    fn errors_are_terminal(&self) -> bool {
        self.rt.stderr().is_terminal()
    }

    // getenv.
    fn variable(&self, name: &str, room: &mut [u8]) -> Option<usize> {
        self.rt.var(name, room).ok()
    }
}
