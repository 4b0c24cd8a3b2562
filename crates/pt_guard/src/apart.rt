//! Whether one folder lies in another: by where their paths lead, links resolved, and by what the
//! folders are, whatever leads to them.
//!
//! The paths are resolved, in a fixed order, and the system is asked for the device and inode of
//! each folder and of each above it until one is the other's (`Overlaps`).
ghost use Rattle.std.specs.Prelude.{◌≡◌, ◌++◌, IfErr, IfOk, string_bytes};
ghost use Rattle.std.specs.IoError.{error_kind};
ghost use Rattle.std.specs.Path.{path_buf_bytes};
ghost use Rattle.pt_guard.specs.Apart.{AreInnerPaths, Finds, InEither, IsHeld, IsUnresolved};
ghost use Rattle.pt_guard.specs.Apart.{LiesIn, Overlaps};
ghost use Rattle.pt_guard.specs.Apart.{SearchesAncestors, folders_in, folders_of, lie_of, tree_of};
ghost use Rattle.pt_guard.specs.FilePlace.{FindsFile, FindsNamed, place_of};

use crate::places::{FileId, Places, is_wanting};
use std::alloc::{AllocError, Global};
use std::io;
use std::path::PathBuf;

const TREE: &str = "/pairtree_root";

const ROOT: &str = "/ocfl";

const STAGING: &str = "/staging";

/// Whether one folder lies in another.
#[derive(Clone, Copy, Debug, PartialEq, Eq)]
pub(crate) enum Nesting {
    /// It is not in it, or one of the two isn't there.
    Apart,
    /// It is the other, or lies in it.
    Inside,
    /// One of them stands, and where can't be found out.
    Unknown,
    /// The system had no memory to tell it.
    Wanting,
}

// What an error of the system says: that memory was wanting, or else this.
fn nesting_of_error(error: &io::Error, otherwise: Nesting) -> Nesting
    ensures { result ≡ lie_of otherwise (error_kind error.now) }
{
    if error.kind() == io::ErrorKind::OutOfMemory {
        Nesting::Wanting
    } else {
        otherwise
    }
}

// A folder that is looked for on the way up from a path, and how many paths are asked of at most.
#[derive(Clone, Copy)]
struct AncestorSearch {
    target: FileId,
    left: usize,
}

// Whether a path leads to a folder, or to something that lies in it; asked of the path and of each
// folder above.
fn has_ancestor<S: Places>(system: &mut S, path: PathBuf, search: AncestorSearch) -> Nesting
    ensures { SearchesAncestors S.does search (path_buf_bytes path) system.old system.new result }
{
    if search.left == 0 {
        return Nesting::Unknown;
    }
    match system.identify(path.as_str()) {
        Ok(found) => {
            if found == search.target {
                return Nesting::Inside;
            }
            let mut above = path;
            if above.pop() {
                let target = search.target;
                let left = search.left - 1;
                has_ancestor(system, above, AncestorSearch { target, left })
            } else {
                Nesting::Apart
            }
        }
        Err(error) => nesting_of_error(&error, Nesting::Unknown),
    }
}

// Whether a resolved path lies in a folder though its text doesn't begin with the folder's: a
// second mount shows the same folder by another path, so that only its device and inode tell. A
// path has at most as many folders at and above it as bytes, so that all of them are asked of.
fn held_against<S: Places>(system: &mut S, inner: PathBuf, outer: &str) -> Nesting
    ensures { IsHeld S.does outer.now (path_buf_bytes inner) system.old system.new result }
{
    match system.identify(outer) {
        Ok(target) => {
            let left = inner.as_str().len();
            has_ancestor(system, inner, AncestorSearch { target, left })
        }
        Err(error) => nesting_of_error(&error, Nesting::Unknown),
    }
}

// What is said of a path that can't be resolved, for this error: memory was wanting, nothing lies
// there, or it isn't known where it is.
fn judge_unresolved<S: Places>(system: &mut S, path: &str, error: io::Error) -> Nesting
    ensures { IsUnresolved S.does path.now error system.old system.new result }
{
    if is_wanting(&error) {
        return Nesting::Wanting;
    }
    match system.identify(path) {
        Ok(_) => Nesting::Unknown,
        Err(error) => nesting_of_error(&error, Nesting::Apart),
    }
}

// Whether what one path leads to is what another leads to, or lies in it.
fn lies_in<S: Places>(system: &mut S, alloc: Global, inner: &str, outer: &str) -> Nesting
    ensures { LiesIn S.does inner.now outer.now system.old system.new result }
{
    match system.resolve(alloc, inner) {
        Ok(place) => match system.resolve(alloc, outer) {
            Ok(other) => {
                if place.starts_with(other.as_str()) {
                    Nesting::Inside
                } else {
                    held_against(system, place, outer)
                }
            }
            Err(error) => judge_unresolved(system, outer, error),
        },
        Err(error) => judge_unresolved(system, inner, error),
    }
}

/// Whether a destination lies in a store or in its `pairtree_root`, or one of these two in what the
/// destination is to hold; the first answer that isn't `Apart`. An error where memory for the paths
/// was refused; then nothing was asked.
pub(crate) fn overlap<S: Places>(
    system: &mut S,
    alloc: Global,
    source: &str,
    dest: &str,
) -> Result<Nesting, AllocError>
    ensures err { IfErr result (λ _. system.new ≡ system.old) }
    ensures ok { IfOk result (λ lie.
        Overlaps S.does source.now dest.now system.old system.new lie) }
{
    let inner = inner_paths(alloc, source, dest)?;
    let paths = inner.run_paths(source, dest);
    Ok(paths.first_found(system, alloc))
}

/// Whether the folder that a file is to be made in lies in a store, in its `pairtree_root` or in
/// what the destination is to hold; and where the file has the name of one of the last, in the
/// destination. The first answer that isn't `Apart`. An error where memory for the paths was
/// refused; then nothing was asked.
pub(crate) fn surroundings<S: Places>(
    system: &mut S,
    alloc: Global,
    file: FilePlace<'_>,
    source: &str,
    dest: &str,
) -> Result<Nesting, AllocError>
    ensures err { IfErr result (λ _. system.new ≡ system.old) }
    ensures ok { IfOk result (λ lie.
        FindsFile S.does (folders_of source.now dest.now) (place_of file.entry)
        system.old system.new lie) }
{
    let inner = inner_paths(alloc, source, dest)?;
    let paths = inner.run_paths(source, dest);
    Ok(paths.first_around(system, alloc, file))
}

/// Whether a folder that a file is to be made in lies in a store or in its `pairtree_root`; the
/// first answer that isn't `Apart`. An error as of `surroundings`.
pub(crate) fn around_store<S: Places>(
    system: &mut S,
    alloc: Global,
    folder: &str,
    source: &str,
) -> Result<Nesting, AllocError>
    ensures err { IfErr result (λ _. system.new ≡ system.old) }
    ensures ok { IfOk result (λ lie.
        InEither S.does folder.now (source.now, tree_of source.now) system.old system.new lie) }
{
    let tree = below(alloc, source, TREE)?;
    Ok(in_either(system, alloc, folder, (source, tree.as_str())))
}

/// Where a file is to be made: its folder, and whether it has the name of what a destination is to
/// hold.
#[derive(Clone, Copy)]
pub(crate) struct FilePlace<'a> {
    /// The folder.
    pub folder: &'a str,
    /// Whether its name is `ocfl` or `staging`.
    pub is_named: bool,
}

// The paths of a store and its `pairtree_root`, and of a destination and what it is to hold.
#[derive(Drop)]
struct RunPaths<'a> {
    source: &'a str,
    tree: &'a str,
    dest: &'a str,
    root: &'a str,
    staging: &'a str,
}

impl<'a> RunPaths<'a> {
    // Whether the destination lies in the store or its tree, or one of these in what the
    // destination is to hold.
    #[tactic(auto, using(crate::proofs::GoingOn::stays))]
    fn first_found<S: Places>(&self, system: &mut S, alloc: Global) -> Nesting
        ensures { Finds S.does (folders_in self.now) system.old system.new result }
    {
        let store = (self.source, self.tree);
        let held = (self.root, self.staging);
        match in_either(system, alloc, self.dest, store) {
            Nesting::Apart => {}
            found => return found,
        }
        match in_either(system, alloc, self.source, held) {
            Nesting::Apart => in_either(system, alloc, self.tree, held),
            found => found,
        }
    }

    // Whether a file would lie in the store, in its tree or in what the destination is to hold, or
    // be one of the last.
    #[tactic(auto, using(crate::proofs::GoingOn::stays))]
    fn first_around<S: Places>(&self, system: &mut S, alloc: Global, file: FilePlace<'_>) -> Nesting
        ensures { FindsFile S.does (folders_in self.now) (place_of file.entry)
            system.old system.new result }
    {
        let held = (self.root, self.staging);
        match in_either(system, alloc, file.folder, (self.source, self.tree)) {
            Nesting::Apart => {}
            found => return found,
        }
        match in_either(system, alloc, file.folder, held) {
            Nesting::Apart => nesting_by_name(system, alloc, file, self.dest),
            found => found,
        }
    }
}

// Whether what a path leads to is, or lies in, the first of two folders; and where it is apart from
// that, the second.
fn in_either<S: Places>(system: &mut S, alloc: Global, inner: &str, outers: (&str, &str)) -> Nesting
    ensures { InEither S.does inner.now (outers.entry.0.now, outers.entry.1.now)
        system.old system.new result }
{
    match lies_in(system, alloc, inner, outers.0) {
        Nesting::Apart => lies_in(system, alloc, inner, outers.1),
        found => found,
    }
}

// Of a file with the name of what a destination is to hold, whether its folder is the destination
// or lies in it; a file of any other name can't be taken for what a run makes there.
fn nesting_by_name<S: Places>(
    system: &mut S,
    alloc: Global,
    file: FilePlace<'_>,
    dest: &str,
) -> Nesting
    ensures { FindsNamed S.does (place_of file.entry) dest.now system.old system.new result }
{
    if file.is_named {
        lies_in(system, alloc, file.folder, dest)
    } else {
        Nesting::Apart
    }
}

// The paths of what a store holds, and a destination is to hold.
#[derive(Drop)]
struct InnerPaths {
    tree: String,
    root: String,
    staging: String,
}

impl InnerPaths {
    // These, with the store and the destination that they are of.
    fn run_paths<'a>(&'a self, source: &'a str, dest: &'a str) -> RunPaths<'a>
        requires { AreInnerPaths source.now dest.now self.now }
        ensures { folders_in result ≡ folders_of source.now dest.now }
    {
        RunPaths {
            source,
            tree: self.tree.as_str(),
            dest,
            root: self.root.as_str(),
            staging: self.staging.as_str(),
        }
    }
}

// Those of a store and a destination at these paths.
fn inner_paths(alloc: Global, source: &str, dest: &str) -> Result<InnerPaths, AllocError>
    ensures { IfOk result (AreInnerPaths source.now dest.now) }
{
    let tree = below(alloc, source, TREE)?;
    let root = below(alloc, dest, ROOT)?;
    let staging = below(alloc, dest, STAGING)?;
    Ok(InnerPaths {
        tree,
        root,
        staging,
    })
}

// A folder's path with a name behind it.
fn below(alloc: Global, folder: &str, name: &str) -> Result<String, AllocError>
    ensures { IfOk result (λ text. string_bytes text ≡ folder.now ++ name.now) }
{
    let mut text = String::from_str(alloc, folder)?;
    text.push_str(name)?;
    Ok(text)
}
