//! How the lock of a folder is asked for.
//!
//! Whether it is a folder is asked first, and what isn't can't be locked (`AsksFolder`,
//! `HoldsKind`). Then its names are read: a storage root or an object itself isn't locked
//! (`HoldsBy`), and where they can't be read the lock is asked for all the same. It is asked for as
//! it is to be had, alone or shared (`AsksLock`), and the answer is handed on: held, another's, or
//! that it can't be asked for (`hold_of`).
ghost use Rattle.std.specs.Prelude.{◌≡◌, ℕ, Bool, List};
ghost use Rattle.std.specs.declared.io.Error.{Error};
ghost use Rattle.std.specs.declared.result.Result.{Result};
ghost use Rattle.pt_guard.specs.declared.places.Claim.{Claim};
ghost use Rattle.pt_guard.specs.LockAttempt.{AsksFolder, AsksLock, FolderWords, HoldsBy};
ghost use Rattle.pt_guard.specs.LockAttempt.{LockAnswer, hold_of};

use crate::declared::declares;
use crate::places::{Claim, LockAttempt, is_wanting};
use std::alloc::Global;
use std::fs::TryLockError;
use std::io;
use std::io::Read;

/// A file that can be locked.
pub trait Lockable {
    /// Asking for the lock as a claim says may be answered so.
    ghost answers: { Claim → Self → LockAnswer → Type 0 };

    /// Asks for the lock, and doesn't wait: `WouldBlock` where another has it, so that it can't be
    /// had as it is asked for; `Error` where there are no locks.
    fn ask_lock(&self, claim: Claim) -> Result<(), TryLockError>
        ensures { answers claim self.now result };
}

/// The calls by which a system's folders are looked at and opened, for their locks. Links are
/// followed. An error is answered where the system gives one.
pub trait FolderCalls {
    /// The names in a folder, each ended by a NUL.
    type Names: Read + Drop;

    /// A folder that is open.
    type Opened: Lockable + Drop;

    /// Whether a path leads to a folder may be answered so.
    ghost kinds: { Self → List ℕ → Result Bool Error → Type 0 };

    /// Reading the names in the folder that a path leads to may be answered so.
    ghost names: { Self → List ℕ → Result Self.Names Error → Type 0 };

    /// Opening the folder that a path leads to may be answered so.
    ghost opens: { Self → List ℕ → Result Self.Opened Error → Type 0 };

    /// Whether a path leads to a folder.
    fn is_folder(&self, path: &str) -> io::Result<bool>
        ensures { kinds self.now path.now result };

    /// The names in the folder that a path leads to.
    fn read_names(&self, path: &str) -> io::Result<Self::Names>
        ensures { names self.now path.now result };

    /// Opens the folder that a path leads to.
    fn open_folder(&self, path: &str) -> io::Result<Self::Opened>
        ensures { opens self.now path.now result };
}

/// A system whose folders can be locked, by its words, as one. Each `FolderCalls` is one, by the
/// one impl below.
pub trait LocksFolders: FolderCalls {
    /// Its words.
    ghost folder_words: { Self → FolderWords Self.Names Self.Opened };
}

impl<S: FolderCalls> LocksFolders for S
where
    S::Names: Read,
    S::Opened: Lockable,
{
    ghost folder_words = { λ system. record {
      kinds = S.kinds system;
      names = S.names system;
      opens = S.opens system;
      remaining = S.Names.remaining;
      answers = S.Opened.answers;
    } };
}

/// Asks for the lock of the folder at a path, as a claim says, unless that is a storage root or an
/// object itself, and says what that came to. What is no folder may be a pipe, whose opening would
/// wait, and isn't opened.
pub fn hold_folder<S: FolderCalls>(
    system: &S,
    alloc: Global,
    path: &str,
    claim: Claim,
) -> LockAttempt<S::Opened>
    ensures { AsksFolder (⟦<S as LocksFolders>⟧.folder_words system.now) claim path.now result }
{
    match system.is_folder(path) {
        Ok(true) => held_by(system, declares(system, alloc, path), path, claim),
        Ok(false) => LockAttempt::Unknown(io::Error::from(io::ErrorKind::NotADirectory)),
        Err(error) => LockAttempt::Unknown(error),
    }
}

// What asking for the lock of the folder at a path comes to, by whether its names declare it a root
// or an object.
fn held_by<S: FolderCalls>(
    system: &S,
    declared: io::Result<bool>,
    path: &str,
    claim: Claim,
) -> LockAttempt<S::Opened>
    ensures { HoldsBy (⟦<S as LocksFolders>⟧.folder_words system.now)
        claim path.now declared result }
{
    match declared {
        Ok(true) => LockAttempt::Root,
        Ok(false) => lock_path(system, path, claim),
        Err(error) if is_wanting(&error) => LockAttempt::Unknown(error),
        Err(_) => lock_path(system, path, claim),
    }
}

// Asks for the lock of the folder at a path, if it can be opened.
fn lock_path<S: FolderCalls>(system: &S, path: &str, claim: Claim) -> LockAttempt<S::Opened>
    ensures { AsksLock (⟦<S as LocksFolders>⟧.folder_words system.now) claim path.now result }
{
    match system.open_folder(path) {
        Ok(folder) => lock_folder(folder, claim),
        Err(error) => LockAttempt::Unknown(error),
    }
}

// Asks for the lock of a folder that was opened.
fn lock_folder<F: Lockable + Drop>(folder: F, claim: Claim) -> LockAttempt<F>
    ensures { (answer : LockAnswer)
        × F.answers claim folder answer × (result ≡ hold_of folder answer) }
{
    match folder.ask_lock(claim) {
        Ok(()) => LockAttempt::Held(folder),
        Err(TryLockError::WouldBlock) => LockAttempt::Taken,
        Err(TryLockError::Error(error)) => LockAttempt::Unknown(error),
    }
}
