//! Whether a folder is a storage root or an object itself, by the names in it.
//!
//! Over any reader that tells its bytes, which are a folder's names, each ended by a NUL, the
//! answer of `is_declared` is true exactly where `0=ocfl_` stands at the start of one
//! (`IsDeclared`).
ghost use Rattle.std.specs.Prelude.{◌≡◌, ◌↔◌, IsTrue};
ghost use Rattle.pt_guard.specs.Declaration.{HasPart, TellsDeclared, mark};
ghost use Rattle.pt_guard.specs.LockAttempt.{TellsNames};

use crate::holding::{FolderCalls, LocksFolders};
use std::alloc::Global;
use std::io;
use std::io::Read;

// How the name of a declaration begins, behind the NUL that ends the name before it.
const MARK: &[u8] = b"\x000=ocfl_";

// How many bytes of names one read takes at most.
const ROOM: usize = 8192;

/// Whether the folder at a path has an entry whose name begins as the declaration of a storage root
/// or of an object does, with `0=ocfl_` (OCFL 1.1, "Root Structure", "Object Conformance
/// Declaration"). An error where its names can't be read.
pub(crate) fn declares<S: FolderCalls>(system: &S, alloc: Global, path: &str) -> io::Result<bool>
    ensures { TellsNames (⟦<S as LocksFolders>⟧.folder_words system.now) path.now result }
{
    let mut dir = system.read_names(path)?;
    is_declared(alloc, &mut dir)
}

// Whether a directory has such an entry. It is read as its names, each ended by a NUL, into room
// for the longest, since no read ends inside one. All of them are held, and looked through once: a
// destination has few, and the answer is then said of one text, wherever its reads were cut.
fn is_declared<D: Read>(alloc: Global, dir: &mut D) -> io::Result<bool>
    ensures { TellsDeclared D.remaining dir.old result }
{
    let mut names = Vec::new(alloc);
    names.push(0)?;
    let mut piece = [0; ROOM];
    // Counted as the reads of `take_all` of pt_folder (taking.rt), so that it ends whatever is
    // read.
    for _ in 0..u64::MAX {
        let count = dir.read(&mut piece)?;
        if count == 0 {
            return Ok(has_mark(names.as_slice()));
        }
        names.extend_from_slice(&piece[..count])?;
    }
    Err(io::Error::from(io::ErrorKind::InvalidData))
}

// Whether the mark stands somewhere in these bytes.
fn has_mark(bytes: &[u8]) -> bool
    ensures { IsTrue result ↔ HasPart mark bytes.now }
{
    let mut rest = bytes;
    while !rest.is_empty() {
        if rest.starts_with(MARK) {
            return true;
        }
        rest = &rest[1..];
    }
    false
}
