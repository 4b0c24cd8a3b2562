//! Where folders are, and their locks.
ghost use Rattle.std.specs.Prelude.{⊤};
ghost use Rattle.pt_guard.specs.LockAttempt.{SaysOfLocks};

use crate::machine::HostMachine;
use crate::system::reading;
use pt_guard::{
    Claim, FileId, FolderCalls, LockAttempt, Lockable, LocksFolders, Places, hold_folder,
};
use std::alloc::{Alloc, Global};
use std::fs::{File, TryLockError};
use std::io;
use std::os::unix::fs::MetadataExt;
use std::path::PathBuf;
use std::rt::Files;

// The names in a folder.
type FolderNames = <HostRuntime as Files>::Dir;

/// A folder that is open, so that it can be locked.
#[derive(Drop)]
pub struct OpenFolder(File);

impl Lockable for OpenFolder {
    ghost answers = { λ _ _ _. ⊤ };

    // flock, which doesn't wait: LOCK_EX for one open file alone, LOCK_SH to be shared.
    fn ask_lock(&self, claim: Claim) -> Result<(), TryLockError> {
        match claim {
            Claim::Alone => self.0.try_lock(),
            Claim::Shared => self.0.try_lock_shared(),
        }
    }
}

impl<'a> FolderCalls for HostMachine<'a, HostRuntime> {
    type Names = FolderNames;

    type Opened = OpenFolder;

    ghost kinds = { λ _ _ _. ⊤ };

    ghost names = { λ _ _ _. ⊤ };

    ghost opens = { λ _ _ _. ⊤ };

    // stat: links are followed.
    fn is_folder(&self, path: &str) -> io::Result<bool> {
        let metadata = self.rt.metadata(path)?;
        Ok(metadata.is_dir())
    }

    // open, of a directory, to read its names.
    fn read_names(&self, path: &str) -> io::Result<FolderNames> {
        self.rt.open_dir(path)
    }

    // open, to read.
    fn open_folder(&self, path: &str) -> io::Result<OpenFolder> {
        Ok(OpenFolder(self.rt.open_file(&reading(), path)?))
    }
}

impl<'a> Places for HostMachine<'a, HostRuntime> {
    type Lock = OpenFolder;

    ghost does = { SaysOfLocks ⟦<HostMachine<'a, HostRuntime> as LocksFolders>⟧.folder_words };

    // realpath.
    fn resolve(&mut self, alloc: Global, path: &str) -> io::Result<PathBuf> {
        self.rt.canonicalize(alloc, path)
    }

    // stat, for the numbers of the device and the inode.
    fn identify(&mut self, path: &str) -> io::Result<FileId> {
        let metadata = self.rt.metadata(path)?;
        Ok(FileId {
            device: metadata.dev(),
            inode: metadata.ino(),
        })
    }

    // lstat.
    fn look(&mut self, path: &str) -> io::Result<()> {
        self.rt.symlink_metadata(path)?;
        Ok(())
    }

    fn hold(&mut self, path: &str, claim: Claim) -> LockAttempt<OpenFolder> {
        hold_folder(self, self.rt.alloc(), path, claim)
    }

    // close, by which the lock is let go of.
    fn release(&mut self, lock: OpenFolder) {
        drop(lock);
    }
}
