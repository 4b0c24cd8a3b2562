//! The machine that a run is made on: a system with places and locks, which lends what a run is
//! made over and takes it back. One ghost word says of each call what it may come to, so that a
//! contract over it says which calls are made, in which order, and what becomes of their answers.
//!
//! Beside the machine the functions of this crate have a clock, standard error, an allocator and
//! terminals, and `Reads`, by bounds; no call of these can change a file or write to the output.
ghost use Rattle.pt_host.specs.HostCall.{HostCall, Lend, MakeFile, MoveFile, OpenOutput};
ghost use Rattle.pt_host.specs.HostCall.{TakeBack, Tell};
ghost use Rattle.pt_host.specs.declared.host.HostIo.{HostIo};

use crate::durable_log::{SyncsOutput, Writes};
use pt_folder::System;
use pt_guard::Places;
use std::io;

/// What a run is made over: the system that keeps the store, the one that keeps the destination,
/// and what takes the log.
#[derive(Drop)]
pub struct HostIo<S, D, W> {
    /// The system that keeps the store.
    pub store: S,
    /// The system that keeps the destination.
    pub folder: D,
    /// What takes the log.
    pub output: W,
}

/// A machine that runs are made on. A call is answered with an error where the system gives one.
pub trait Host: Places {
    type Store: System;

    type Folder: System;

    type Output: Writes;

    type File: SyncsOutput<Self::Output> + Drop;

    /// A call may come to this, and leave it so.
    ghost does: { Self → HostCall Self.File (HostIo Self.Store Self.Folder Self.Output) → Self
        → Type 0 };

    /// The file that its output goes to, opened once more; nothing where it goes to what isn't a
    /// file, as a terminal or a pipe.
    fn output_file(&mut self) -> io::Result<Option<Self::File>>
        ensures { does self.old (OpenOutput result) self.new };

    /// Lends what a run is made over.
    fn lend(&mut self) -> HostIo<Self::Store, Self::Folder, Self::Output>
        ensures { does self.old (Lend result) self.new };

    /// Takes back what it lent.
    fn take_back(&mut self, host_io: HostIo<Self::Store, Self::Folder, Self::Output>)
        ensures { does self.old (TakeBack host_io) self.new };

    /// Makes a file at a path where nothing stands, not even a link, with this text, and has it put
    /// onto the disk. Nothing else is made or changed; where it fails a part of the file may be
    /// left.
    fn create_new(&mut self, path: &str, text: &str) -> io::Result<()>
        ensures { does self.old (MakeFile path.now text.now result) self.new };

    /// Renames the file at a path to another, and so replaces what stands there. Nothing else is
    /// made or changed.
    fn move_file(&mut self, from: &str, to: &str) -> io::Result<()>
        ensures { does self.old (MoveFile from.now to.now result) self.new };

    /// Tells standard error a text, as it is. Where that can't be written nothing is answered, as
    /// nothing changes by it.
    fn tell(&mut self, text: &str)
        ensures { does self.old (Tell text.now) self.new };
}
