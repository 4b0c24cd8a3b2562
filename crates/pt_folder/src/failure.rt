//! The last failure of a folder: the path of the call that failed, and why.
ghost use Rattle.std.specs.Prelude.{◌≡◌, IfOk, IfSome, Some, string_bytes};
ghost use Rattle.std.specs.Option.{option_map};
ghost use Rattle.std.specs.IoError.{error_kind};
ghost use Rattle.pt_tree.specs.declared.faults.TreeFault.TheVariants.{Device};
ghost use Rattle.pt_folder.specs.Folder.{fault_of_kind};
ghost use Rattle.pt_folder.specs.Failure.{IsAt, IsForName, failure_at, failure_for_name, name_of};

use crate::folder::fault_of;
use pt_tree::TreeFault;
use std::alloc::{AllocError, Global};
use std::{fmt, io};

/// Why a call of a folder failed: the system's own error, or one of the folder's own rules.
#[derive(Clone, Copy, Debug)]
pub enum FailureReason {
    /// The system's answer.
    System(io::Error),
    /// The folder's own path is empty, so nothing was asked.
    Empty,
    /// The path is longer than any that may be made, so nothing was asked.
    Long,
    /// The directory has a name that no entry may have: on Linux one that isn't UTF-8.
    Name,
    /// The directory has more than 16,777,216 entries.
    Entries,
    /// The directory's names don't end, or one of them doesn't.
    Endless,
    /// The directory gives a name twice.
    Twice,
    /// No file is open.
    Closed,
    /// What should be read is no file any more, so it wasn't opened.
    NotFile,
}

impl fmt::Display for FailureReason {
    fn fmt<W: fmt::Write>(&self, f: &mut fmt::Formatter<W>) -> fmt::Result {
        match self {
            FailureReason::System(error) => fmt::Display::fmt(error, f),
            FailureReason::Empty => f.write_str("the path is empty"),
            FailureReason::Long => f.write_str("the path would be too long at its place in ocfl"),
            FailureReason::Name => f.write_str("a name in it is not UTF-8"),
            FailureReason::Entries => f.write_str("it has more than 16777216 entries"),
            FailureReason::Endless => f.write_str("its names do not end"),
            FailureReason::Twice => f.write_str("it gives a name twice"),
            FailureReason::Closed => f.write_str("no file is open"),
            FailureReason::NotFile => f.write_str("it is no longer a file"),
        }
    }
}

/// A call that failed, by its path, and why.
#[derive(Debug, Drop)]
pub struct Failure {
    path: String,
    cause: FailureReason,
    name: Option<Vec<u8>>,
}

impl Failure {
    /// A failure of a call on a path.
    pub fn at(path: String, cause: FailureReason) -> Failure
        ensures { result ≡ failure_at path cause }
    {
        Failure {
            path,
            cause,
            name: None,
        }
    }

    /// A failure of a listing at a directory's path, for these bytes, which are no name that an
    /// entry may have.
    pub fn for_name(path: String, name: Vec<u8>) -> Failure
        ensures { result ≡ failure_for_name path name }
    {
        Failure {
            path,
            cause: FailureReason::Name,
            name: Some(name),
        }
    }

    /// The path of the call that failed.
    pub fn path(&self) -> &str
        ensures { result.now ≡ string_bytes self.now.path }
    {
        self.path.as_str()
    }

    /// Why it failed.
    pub fn cause(&self) -> FailureReason
        ensures { result ≡ self.now.cause }
    {
        self.cause
    }

    /// Of a directory's name that no entry may have: its bytes.
    pub fn name(&self) -> Option<&[u8]>
        ensures { option_map (λ bytes. bytes.now) result ≡ name_of self.now }
    {
        match &self.name {
            Some(name) => Some(name.as_slice()),
            None => None,
        }
    }
}

/// The last failure of a folder's calls, and where the memory for its path comes from.
#[derive(Drop)]
pub struct Last {
    pub alloc: Global,
    pub failure: Option<Failure>,
}

impl Last {
    /// Keeps a failure at a path.
    pub fn keep(&mut self, path: String, cause: FailureReason)
        ensures { self.new.failure ≡ Some (failure_at path cause) }
    {
        self.failure = Some(Failure::at(path, cause));
    }

    /// Keeps a failure at a copy of a path; none is kept where there is no memory for the copy.
    pub fn keep_copy(&mut self, path: &str, cause: FailureReason)
        ensures { IfSome self.new.failure (IsAt path.now cause) }
    {
        self.failure = match String::from_str(self.alloc, path) {
            Ok(path) => Some(Failure::at(path, cause)),
            Err(_) => None,
        };
    }

    /// Keeps a failure at a copy of a directory's path, for a copy of these bytes, which are no
    /// name that an entry may have; none is kept where there is no memory for the copies.
    pub fn keep_name(&mut self, path: &str, name: &[u8])
        ensures { IfSome self.new.failure (IsForName path.now name.now) }
    {
        self.failure = match failure_at_copy(self.alloc, path, name) {
            Ok(failure) => Some(failure),
            Err(_) => None,
        };
    }

    /// Keeps the system's error at a path, and gives what it is answered: `Memory` for want of
    /// memory, else `Device`.
    pub fn record_error(&mut self, path: String, error: io::Error) -> TreeFault
        ensures fault { result ≡ fault_of_kind (error_kind error) }
        ensures kept { self.new.failure ≡ Some (failure_at path (FailureReason.System error)) }
    {
        self.keep(path, FailureReason::System(error));
        fault_of(error)
    }

    /// The same at a copy of a path: nothing is kept where there is no memory for the copy.
    pub fn record_error_at_copy(&mut self, path: &str, error: io::Error) -> TreeFault
        ensures fault { result ≡ fault_of_kind (error_kind error) }
        ensures kept { IfSome self.new.failure (IsAt path.now (FailureReason.System error)) }
    {
        self.keep_copy(path, FailureReason::System(error));
        fault_of(error)
    }

    /// Keeps the system's error at a path where a sync failed, and gives what that is answered:
    /// `Device`, whatever the error. The system has done its part by then, and no growth of ours
    /// was refused.
    pub fn record_unsynced(&mut self, path: String, error: io::Error) -> TreeFault
        ensures fault { result ≡ Device }
        ensures kept { self.new.failure ≡ Some (failure_at path (FailureReason.System error)) }
    {
        self.keep(path, FailureReason::System(error));
        TreeFault::Device
    }
}

// A failure at a copy of a directory's path, for a copy of these bytes.
fn failure_at_copy(alloc: Global, path: &str, name: &[u8]) -> Result<Failure, AllocError>
    ensures { IfOk result (IsForName path.now name.now) }
{
    let path = String::from_str(alloc, path)?;
    Ok(Failure::for_name(path, Vec::from_slice(alloc, name)?))
}
