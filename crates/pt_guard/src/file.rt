//! Whether a file may be made at a path: where no run and no audit reads, and none makes anything.
//! It is asked of the file's folder as of a run's (`FindsFile`).
ghost use Rattle.std.specs.Prelude.{◌≡◌, IfErr, IfOk, option_map};
ghost use Rattle.std.specs.Path.{path_file_name, path_parent};
ghost use Rattle.pt_guard.specs.FilePlace.{FileLies, JudgesFile, folder_in, is_named_so};

use crate::apart::{FilePlace, Nesting, around_store, surroundings};
use crate::places::Places;
use std::alloc::{AllocError, Global};
use std::path::Path;
use thiserror::Error;

/// Why a file may not be made at a path. Nothing was made.
#[derive(Clone, Copy, Debug, PartialEq, Eq, Error)]
pub enum FileFault {
    /// It would lie in the store, or in `ocfl` or `staging` of the destination, or be one of these
    /// two.
    #[error("FILE of --event lies in SOURCE, DEST/ocfl or DEST/staging")]
    Inside,
    /// The system can't tell where its folder is.
    #[error("the system cannot tell where FILE of --event lies")]
    Hidden,
    /// A growth was refused, of ours or of the system's.
    #[error("out of memory")]
    Memory,
}

impl From<AllocError> for FileFault {
    ghost use Rattle.std.specs.Prelude.{◌≡◌};
    ghost use Rattle.pt_guard.specs.declared.file.FileFault.TheVariants.{Memory};

    ghost from_gives = { λ _ e. e ≡ Memory };

    fn from(_: AllocError) -> Self {
        FileFault::Memory
    }
}

/// Whether a file may be made at a path, beside a run or an audit between two folders, or beside a
/// check of a store, which has no destination. What stands at the path isn't asked for.
///
/// `Inside` where its folder, links resolved, is the store, its `pairtree_root`, or `ocfl` or
/// `staging` of the destination, or lies in one, or is so by what the system knows it by; and where
/// the file has the name `ocfl` or `staging` in the destination or below. `Hidden` where one of
/// these stands and that can't be found out. `Memory` where a growth was refused: of a path, before
/// anything is asked, or by the system.
pub fn judge_file<S: Places>(
    system: &mut S,
    alloc: Global,
    file: &str,
    source: &str,
    dest: Option<&str>,
) -> Result<(), FileFault>
    ensures { JudgesFile S.does (source.now, option_map (λ dest. dest.now) dest.entry) file.now
        system.old system.new result }
{
    match nesting_of_file(system, alloc, file, source, dest)? {
        Nesting::Apart => Ok(()),
        Nesting::Inside => Err(FileFault::Inside),
        Nesting::Unknown => Err(FileFault::Hidden),
        Nesting::Wanting => Err(FileFault::Memory),
    }
}

// Whether a file at a path would lie where none may be made.
fn nesting_of_file<S: Places>(
    system: &mut S,
    alloc: Global,
    file: &str,
    source: &str,
    dest: Option<&str>,
) -> Result<Nesting, AllocError>
    ensures err { IfErr result (λ _. system.new ≡ system.old) }
    ensures ok { IfOk result (λ lie.
        FileLies S.does (source.now, option_map (λ dest. dest.now) dest.entry) file.now
        system.old system.new lie) }
{
    let folder = folder_of(file);
    let is_named = has_kept_name(file);
    match dest {
        Some(dest) => {
            let place = FilePlace { folder, is_named };
            surroundings(system, alloc, place, source, dest)
        }
        None => around_store(system, alloc, folder, source),
    }
}

// The folder that a file at a path lies in; `.` where the path is a name alone.
fn folder_of(file: &str) -> &str
    ensures { result.now ≡ folder_in (path_parent file.now) }
{
    match Path::new(file).parent() {
        Some(folder) if !folder.as_str().is_empty() => folder.as_str(),
        _ => ".",
    }
}

// Whether the name at a path's end is that of what a destination is to hold.
fn has_kept_name(file: &str) -> bool
    ensures { result ≡ is_named_so (path_file_name file.now) }
{
    match Path::new(file).file_name() {
        Some(name) => name == "ocfl" || name == "staging",
        None => false,
    }
}
