//! The path of a text.
ghost use Rattle.std.specs.Prelude.{◌≡◌, IfErr, IfOk};
ghost use Rattle.std.specs.IoError.{error_kind};
ghost use Rattle.pt_tree.specs.Path.{Path, joined};
ghost use Rattle.pt_tree.specs.declared.name.NameFault.TheVariants as name;
ghost use Rattle.pt_folder.specs.Folder.{IsAbsent, entry_text};
ghost use Rattle.pt_folder.specs.Laws.{IsPath};
ghost use Rattle.pt_memory_system.specs.System.{IsNotFound};

use pt_tree::{NameFault, NamePath};
use std::alloc::Global;
use std::io;

/// The path of the entry of a folder that a text leads to. `NotFound` only where the text leads to
/// none; `OutOfMemory` where a growth was refused.
pub fn entry_of(alloc: Global, folder: &str, text: &str) -> io::Result<NamePath>
    ensures path { IfOk result (λ path. (p : Path) → IsPath p
        → text.now ≡ entry_text folder.now p → path ≡ p) }
    ensures none { IfErr result (λ e. IsAbsent (error_kind e) → (p : Path) → IsPath p
        → ¬ (text.now ≡ entry_text folder.now p)) }
    ensures kinds { IfErr result (λ e. IsNotFound (error_kind e)) }
{
    path_of(alloc, folder.as_bytes(), text.as_bytes())
}

// The path below a root that a text leads to.
fn path_of(alloc: Global, root: &[u8], text: &[u8]) -> io::Result<NamePath>
    ensures path { IfOk result (λ path. (p : Path) → IsPath p
        → text.now ≡ entry_text root.now p → path ≡ p) }
    ensures none { IfErr result (λ e. IsAbsent (error_kind e) → (p : Path) → IsPath p
        → ¬ (text.now ≡ entry_text root.now p)) }
    ensures kinds { IfErr result (λ e. IsNotFound (error_kind e)) }
{
    if text.len() <= root.len() {
        return Err(io::Error::from(io::ErrorKind::NotFound));
    }
    let (front, rest) = text.split_at(root.len());
    if front != root || rest[0] != b'/' {
        return Err(io::Error::from(io::ErrorKind::NotFound));
    }
    names_of(alloc, &rest[1..])
}

// The path of names with slashes between.
fn names_of(alloc: Global, text: &[u8]) -> io::Result<NamePath>
    ensures path { IfOk result (λ path. (p : Path) → IsPath p → text.now ≡ joined p
        → path ≡ p) }
    ensures none { IfErr result (λ e. IsAbsent (error_kind e) → (p : Path) → IsPath p
        → ¬ (text.now ≡ joined p)) }
    ensures kinds { IfErr result (λ e. IsNotFound (error_kind e)) }
{
    match NamePath::of_text(alloc, text) {
        Ok(path) => Ok(path),
        Err(refusal) => Err(io::Error::from(kind_of(refusal))),
    }
}

// What a text that is no path is answered with: that nothing is there.
fn kind_of(refusal: NameFault) -> io::ErrorKind
    ensures absent { IsAbsent result → ¬ (refusal ≡ name.Memory) }
    ensures kinds { IsNotFound result }
{
    match refusal {
        NameFault::Memory => io::ErrorKind::OutOfMemory,
        _ => io::ErrorKind::NotFound,
    }
}
