//! The calls of the system that look where folders are and lock them. One ghost word says of each
//! call what it may come to, so that a contract over it says which calls are made and what becomes
//! of their answers.
ghost use Rattle.std.specs.Prelude.{◌↔◌, IsTrue};
ghost use Rattle.pt_guard.specs.PlaceCall.{PlaceCall, Hold, Identify, Look, Release, Resolve};
ghost use Rattle.pt_guard.specs.Wanting.{IsWanting};

use std::alloc::Global;
use std::io;
use std::path::PathBuf;

/// How a lock is asked for.
#[derive(Clone, Copy, Debug, PartialEq, Eq)]
pub enum Claim {
    /// For one open file alone: nobody else may have it, however it is asked for.
    Alone,
    /// To be shared: others may have it too, who share it.
    Shared,
}

/// What asking for a folder's lock came to.
#[derive(Debug, Drop)]
pub enum LockAttempt<L> {
    /// The lock is held, until this is given back.
    Held(L),
    /// Another holds it, so that it can't be had as it was asked for.
    Taken,
    /// It wasn't asked for: the folder is a storage root or an object itself, by an entry whose
    /// name begins with `0=ocfl_`.
    Root,
    /// It can't be asked for, for this reason: there is no folder, or it can't be opened, or its
    /// file system has no locks.
    Unknown(io::Error),
}

/// What the system knows a file or folder by, whatever path leads to it: its device, and its number
/// there.
#[derive(Clone, Copy, Debug, PartialEq, Eq)]
pub struct FileId {
    /// The number of the device.
    pub device: u64,
    /// The number of the inode on it.
    pub inode: u64,
}

/// A system with folders that are somewhere and can be locked. A lock that is held can't be let go
/// of but by giving it back. Where a path leads, and what is there, is answered with an error where
/// the system gives one, as where nothing stands there.
pub trait Places {
    type Lock;

    /// A call may come to this, and leave it so.
    ghost does: { Self → PlaceCall Self.Lock → Self → Type 0 };

    /// Where a path leads, from the top, links resolved.
    fn resolve(&mut self, alloc: Global, path: &str) -> io::Result<PathBuf>
        ensures { does self.old (Resolve path.now result) self.new };

    /// What a path leads to, links followed.
    fn identify(&mut self, path: &str) -> io::Result<FileId>
        ensures { does self.old (Identify path.now result) self.new };

    /// Looks at what stands at a path, a link not followed.
    fn look(&mut self, path: &str) -> io::Result<()>
        ensures { does self.old (Look path.now result) self.new };

    /// Asks for the lock of the folder at a path, unless that is a storage root or an object
    /// itself. What is no folder isn't opened.
    fn hold(&mut self, path: &str, claim: Claim) -> LockAttempt<Self::Lock>
        ensures { does self.old (Hold claim path.now result) self.new };

    /// Gives a lock back, which isn't held from then on.
    fn release(&mut self, lock: Self::Lock)
        ensures { does self.old (Release lock) self.new };
}

/// Whether an error says that memory was wanting.
pub(crate) fn is_wanting(error: &io::Error) -> bool
    ensures { IsTrue result ↔ IsWanting error.now }
{
    error.kind() == io::ErrorKind::OutOfMemory
}
