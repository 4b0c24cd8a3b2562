//! Changes of a memory tree at whole paths: taking away, adding to a file, renaming.
ghost use Rattle.std.specs.Prelude.{◌≡◌, ◌<◌, true, length, IsSome, OnOk, OnErr};
ghost use Rattle.pt_memory.specs.Entries.{forest_of, open_of};
ghost use Rattle.pt_tree.specs.Forest.{changed, is_proper, named, rewritten};
ghost use Rattle.pt_tree.specs.Path.{IsBelowTop, last_name, parent};
ghost use Rattle.pt_tree.specs.Tree.{CanMove, added, moved, tree_of, without};

use crate::changes::{Edit, edit_bytes, insert, remove};
use crate::entries::Entries;
use crate::planting::file_in;
use pt_tree::{MemoryFault, Name, NamePath};

/// Takes away what stands at a path, with all below; the top stays.
pub fn take(entries: &mut Entries, path: &NamePath)
    requires proper { is_proper (forest_of entries.old) ≡ true }
    requires stands { IsSome (tree_of (forest_of entries.old) path.now) }
    requires below { IsBelowTop path.now }
    ensures tree { tree_of (forest_of entries.new)
        ≡ without (tree_of (forest_of entries.old)) path.now }
    ensures proper { is_proper (forest_of entries.new) ≡ true }
{
    if let Some((dir, name)) = path.split() {
        drop(remove(entries, dir, name));
    }
}

/// Adds a piece to the file at a path, if one is there.
pub fn append(entries: &mut Entries, path: &NamePath, piece: &[u8]) -> Result<(), MemoryFault>
    requires { is_proper (forest_of entries.old) ≡ true }
    ensures ok { OnOk result (tree_of (forest_of entries.new)
        ≡ added (tree_of (forest_of entries.old)) path.now piece.now) }
    ensures err { OnErr result (tree_of (forest_of entries.new) ≡ tree_of (forest_of entries.old)) }
    ensures proper { is_proper (forest_of entries.new) ≡ true }
{
    if file_in(entries, path).is_none() {
        return Ok(());
    }
    let Some((dir, name)) = path.split() else {
        return Ok(());
    };
    edit_bytes(entries, dir, name, Edit::Append(piece))?;
    Ok(())
}

/// Lets the file at a path hold other bytes; if it is open, it stays open at its place.
pub fn rewrite(entries: &mut Entries, path: &NamePath, bytes: Vec<u8>)
    requires proper { is_proper (forest_of entries.old) ≡ true }
    requires below { 0 < length path.now }
    ensures forest { forest_of entries.new
        ≡ changed (rewritten (λ _. bytes.items) (last_name path.now)) (forest_of entries.old)
        (parent path.now) }
    ensures marked { open_of entries.new ≡ open_of entries.old }
    ensures proper { is_proper (forest_of entries.new) ≡ true }
{
    let Some((dir, name)) = path.split() else {
        unreachable!()
    };
    edit_bytes(entries, dir, name, Edit::Replace(bytes)).unwrap();
}

/// Moves what stands at `from`, with all below, to `to`.
pub fn rename(entries: &mut Entries, from: &NamePath, to: &NamePath) -> Result<(), MemoryFault>
    requires proper { is_proper (forest_of entries.old) ≡ true }
    requires may { CanMove (tree_of (forest_of entries.old)) from.now to.now }
    ensures ok { OnOk result (tree_of (forest_of entries.new)
        ≡ moved (tree_of (forest_of entries.old)) from.now to.now) }
    ensures err { OnErr result (forest_of entries.new ≡ forest_of entries.old) }
    ensures proper { is_proper (forest_of entries.new) ≡ true }
{
    let Some((from_dir, from_name)) = from.split() else {
        unreachable!()
    };
    let Some((to_dir, to_name)) = to.split() else {
        unreachable!()
    };
    let name = to_name.copy()?;
    let moved = remove(entries, from_dir, from_name);
    insert(entries, to_dir, with_name(moved, name));
    Ok(())
}

// The first entry under another name.
fn with_name(leaf: Entries, name: Name) -> Entries
    ensures { forest_of result ≡ named name (forest_of leaf) }
{
    match leaf {
        Entries::End => Entries::End,
        Entries::File(_, file, after) => Entries::File(name, file, after),
        Entries::Other(_, after) => Entries::Other(name, after),
        Entries::Dir(_, inside, after) => Entries::Dir(name, inside, after),
    }
}
