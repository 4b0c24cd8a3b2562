//! The share that takes the identifiers of a list.
//!
//! Where `--list` names a file, that is read first, by `read_identifiers`, and what is made takes
//! just the identifiers in its lines (`TakesList`); a file that can't be read or has another line
//! is refused (2), by a line that says so.
ghost use Rattle.std.specs.Prelude.{◌≡◌, IfOk, map};
ghost use Rattle.std.specs.String.{string_bytes};
ghost use Rattle.pt_cli.specs.Listing.{IsListing, IsOwnLine, IsUnread, ReadsList};
ghost use Rattle.pt_cli.specs.Listing.{TakesIdentifiers, TakesList, texts_of};

use crate::identifier_lines::read_identifiers;
use crate::{FileFault, Text};
use pt_host::{Reads, ReadsFiles};
use pt_messages::escape;
use pt_name::{IdentifierList, Share};
use pt_tree::MemoryFault;
use std::alloc::{AllocError, AllocGlobal, Global};
use std::{fmt, io};

/// Why no share takes the identifiers of a list.
#[derive(Drop)]
pub(crate) enum Untaken {
    /// Its file can't be read, or a line is no identifier: this line says so.
    Refused(String),
    /// A growth was refused.
    Memory,
}

// The share that takes the identifiers of the list in a file too, where one is named.
pub(crate) fn take_list<R: Reads + AllocGlobal>(
    rt: &R,
    list: &Option<Text>,
    share: Share,
) -> Result<Share, Untaken>
    ensures { TakesList (⟦<R as ReadsFiles>⟧.file_words rt.now) list.now share result }
{
    let Some(path) = list else {
        return Ok(share);
    };
    let path = path.as_str();
    match read_list(rt, path) {
        Ok(ids) => take_identifiers(rt.alloc(), path, ids, share),
        Err(fault) => Err(unread(rt.alloc(), path, &fault)),
    }
}

// The identifiers in the lines of the file at a path.
fn read_list<R: Reads + AllocGlobal>(rt: &R, path: &str) -> Result<Vec<String>, FileFault>
    ensures { ReadsList (⟦<R as ReadsFiles>⟧.file_words rt.now) path.now (texts_of result) }
{
    match rt.open(path) {
        Ok(mut file) => read_identifiers(rt.alloc(), &mut file),
        Err(error) => Err(FileFault::Read(error)),
    }
}

// The share that takes these identifiers too. `Memory` where a growth was refused.
fn take_identifiers(
    alloc: Global,
    path: &str,
    ids: Vec<String>,
    share: Share,
) -> Result<Share, Untaken>
    ensures { TakesIdentifiers (map string_bytes ids.items) share result }
{
    match with_list(alloc, path, ids, share) {
        Ok(share) => Ok(share),
        Err(_) => Err(Untaken::Memory),
    }
}

// The share that takes the identifiers of the list at a path. An error where a growth was refused.
fn with_list(
    alloc: Global,
    path: &str,
    ids: Vec<String>,
    share: Share,
) -> Result<Share, MemoryFault>
    ensures { IfOk result (IsListing (map string_bytes ids.items) share) }
{
    let name = String::from_str(alloc, path)?;
    share.with_list(alloc, IdentifierList::of(name, ids))
}

// Why the identifiers of the list at a path can't be had.
fn unread(alloc: Global, path: &str, fault: &FileFault) -> Untaken
    ensures { IsUnread fault.now result }
{
    let line = match fault {
        FileFault::Line(bad) => line_against(alloc, path, bad),
        FileFault::Read(error) if error.kind() != io::ErrorKind::OutOfMemory => {
            line_against(alloc, path, error)
        }
        _ => return Untaken::Memory,
    };
    match line {
        Ok(line) => Untaken::Refused(line),
        Err(_) => Untaken::Memory,
    }
}

// The line that says what is against the file at a path. An error where a growth was refused.
fn line_against(alloc: Global, path: &str, reason: &impl fmt::Display) -> Result<String, AllocError>
    ensures { IfOk result (λ line. IsOwnLine (string_bytes line)) }
{
    let path = escape(alloc, path)?;
    let against = format!(in alloc; "{path}: {reason}\n")?;
    let mut line = String::from_str(alloc, "pairtree2ocfl: ")?;
    line.push_str(against.as_str())?;
    Ok(line)
}
