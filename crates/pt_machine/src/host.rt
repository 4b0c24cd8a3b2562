//! What runs are made over, the files of events, and the file of the output.
ghost use Rattle.std.specs.Prelude.{⊤};

use crate::machine::HostMachine;
use crate::system::reading;
use pt_guard::Places;
use pt_host::{Host, HostIo, OutputCalls, Syncs, Terminals, open_output};
use std::fs::{OpenFile, OpenOptions};
use std::io;
use std::io::{Printer, Write};
use std::rt::Files;

// Where the system shows a program its own standard output.
const OUTPUT: &str = "/dev/stdout";

/// A file that standard output goes to, opened once more. Having one opening of a file put onto its
/// disk does that for what was written through any other.
#[derive(Drop)]
pub struct OutputFile<F>(F);

// What a run is made over.
type LentIo<'a, R> = HostIo<HostMachine<'a, R>, HostMachine<'a, R>, Printer<'a, R>>;

impl<F: OpenFile> Syncs for OutputFile<F> {
    ghost syncs = { λ _ _ _. ⊤ };

    // fsync.
    fn sync(&mut self) -> io::Result<()> {
        self.0.sync_all()
    }
}

impl<'a, R: Files> OutputCalls for HostMachine<'a, R> {
    type Opened = OutputFile<R::File>;

    ghost judges = { λ _ _. ⊤ };

    ghost appends = { λ _ _. ⊤ };

    ghost reads = { λ _ _. ⊤ };

    // stat.
    fn output_is_file(&self) -> io::Result<bool> {
        let metadata = self.rt.metadata(OUTPUT)?;
        Ok(metadata.is_file())
    }

    // open, to append; it makes no file.
    fn append_output(&self) -> io::Result<OutputFile<R::File>> {
        let mut options = OpenOptions::new();
        options.append(true);
        Ok(OutputFile(self.rt.open_file(&options, OUTPUT)?))
    }

    // open, to read.
    fn read_output(&self) -> io::Result<OutputFile<R::File>> {
        Ok(OutputFile(self.rt.open_file(&reading(), OUTPUT)?))
    }
}

impl<'a, R: Files + Print + Eprint> Host for HostMachine<'a, R>
where
    HostMachine<'a, R>: Places + Terminals,
{
    type Store = HostMachine<'a, R>;

    type Folder = HostMachine<'a, R>;

    type Output = Printer<'a, R>;

    type File = OutputFile<R::File>;

    ghost does = { λ _ _ _. ⊤ };

    fn output_file(&mut self) -> io::Result<Option<OutputFile<R::File>>> {
        open_output(self)
    }

    // The same runtime for the store and the destination, and standard output for the log.
    fn lend(&mut self) -> LentIo<'a, R> {
        HostIo {
            store: HostMachine::new(self.rt),
            folder: HostMachine::new(self.rt),
            output: io::writer(self.rt),
        }
    }

    // Nothing: what was lent holds the runtime alone, which is still here.
    fn take_back(&mut self, host_io: LentIo<'a, R>)
        ensures { ⊤ }
    {
        let HostIo { .. } = host_io;
    }

    // open, to write, which makes the file and fails where anything stands, also a link; then the
    // whole text, and fsync.
    fn create_new(&mut self, path: &str, text: &str) -> io::Result<()> {
        let mut options = OpenOptions::new();
        options.write(true).create_new(true);
        let mut file = self.rt.open_file(&options, path)?;
        file.write_all(text.as_bytes())?;
        file.sync_all()
    }

    // rename.
    fn move_file(&mut self, from: &str, to: &str) -> io::Result<()> {
        self.rt.rename(from, to)
    }

    // write, to standard error.
    fn tell(&mut self, text: &str) {
        let _ = self.rt.eprint(text);
    }
}
