//! Changes of a memory tree's entries. None of them takes memory, but for bytes that are appended.
ghost use Rattle.std.specs.Prelude.{◌≡◌, None, true, IsOk, OnOk, OnErr};
ghost use Rattle.pt_tree.specs.Forest.{changed, first_alone, first_name, in_front, inserted};
ghost use Rattle.pt_tree.specs.Forest.{picked, picked_at, removed, rewritten, without_first};
ghost use Rattle.pt_tree.specs.Listing.{is_before};
ghost use Rattle.pt_memory.specs.Entries.{edited, is_replace, forest_of, open_of};

use crate::entries::{Entries, File};
use pt_tree::Name;
use std::alloc::AllocError;
use std::mem;

/// Inserts the first entry of `leaf` into the directory at a path, in the order of the names.
pub fn insert(entries: &mut Entries, dir: &[Name], leaf: Entries)
    ensures forest { forest_of entries.new
        ≡ changed (inserted (forest_of leaf)) (forest_of entries.old) dir.now }
    ensures marked { open_of leaf ≡ None → open_of entries.new ≡ open_of entries.old }
{
    let [name, rest @ ..] = dir else {
        return insert_here(entries, leaf);
    };
    match entries {
        Entries::End => drop(leaf),
        Entries::File(_, _, after) => insert(after, dir, leaf),
        Entries::Other(_, after) => insert(after, dir, leaf),
        Entries::Dir(first, inside, after) => {
            if *first == *name {
                insert(inside, rest, leaf);
            } else {
                insert(after, dir, leaf);
            }
        }
    }
}

fn insert_here(entries: &mut Entries, leaf: Entries)
    ensures forest { forest_of entries.new ≡ inserted (forest_of leaf) (forest_of entries.old) }
    ensures marked { open_of leaf ≡ None → open_of entries.new ≡ open_of entries.old }
{
    match entries {
        Entries::End => {}
        Entries::File(name, _, after) => {
            if comes_before(name, &leaf) {
                return insert_here(after, leaf);
            }
        }
        Entries::Other(name, after) => {
            if comes_before(name, &leaf) {
                return insert_here(after, leaf);
            }
        }
        Entries::Dir(name, _, after) => {
            if comes_before(name, &leaf) {
                return insert_here(after, leaf);
            }
        }
    }
    put_first(entries, leaf);
}

// Whether a name comes before the leaf's.
fn comes_before(name: &Name, leaf: &Entries) -> bool
    ensures { result ≡ is_before name.now (first_name (forest_of leaf.now)) }
{
    match leaf {
        Entries::End => false,
        Entries::File(other, _, _) => name < other,
        Entries::Other(other, _) => name < other,
        Entries::Dir(other, _, _) => name < other,
    }
}

fn put_first(entries: &mut Entries, leaf: Entries)
    ensures forest { forest_of entries.new ≡ in_front (forest_of leaf) (forest_of entries.old) }
    ensures marked { open_of leaf ≡ None → open_of entries.new ≡ open_of entries.old }
{
    let mut others = mem::replace(entries, leaf);
    match entries {
        Entries::End => mem::swap(entries, &mut others),
        Entries::File(_, _, after) => mem::swap(&mut **after, &mut others),
        Entries::Other(_, after) => mem::swap(&mut **after, &mut others),
        Entries::Dir(_, _, after) => mem::swap(&mut **after, &mut others),
    }
    drop(others);
}

/// Takes the entry of a name out of the directory at a path, and gives it alone; nothing where
/// there is none.
pub fn remove(entries: &mut Entries, dir: &[Name], name: &Name) -> Entries
    ensures forest { forest_of entries.new
        ≡ changed (removed name.now) (forest_of entries.old) dir.now }
    ensures entry { forest_of result ≡ picked_at (forest_of entries.old) dir.now name.now }
{
    let [next, rest @ ..] = dir else {
        return remove_here(entries, name);
    };
    match entries {
        Entries::End => Entries::End,
        Entries::File(_, _, after) => remove(after, dir, name),
        Entries::Other(_, after) => remove(after, dir, name),
        Entries::Dir(first, inside, after) => {
            if *first == *next {
                remove(inside, rest, name)
            } else {
                remove(after, dir, name)
            }
        }
    }
}

fn remove_here(entries: &mut Entries, name: &Name) -> Entries
    ensures forest { forest_of entries.new ≡ removed name.now (forest_of entries.old) }
    ensures entry { forest_of result ≡ picked name.now (forest_of entries.old) }
{
    match entries {
        Entries::End => Entries::End,
        Entries::File(first, _, after) => {
            if *first == *name {
                take_first(entries)
            } else {
                remove_here(after, name)
            }
        }
        Entries::Other(first, after) => {
            if *first == *name {
                take_first(entries)
            } else {
                remove_here(after, name)
            }
        }
        Entries::Dir(first, _, after) => {
            if *first == *name {
                take_first(entries)
            } else {
                remove_here(after, name)
            }
        }
    }
}

fn take_first(entries: &mut Entries) -> Entries
    ensures forest { forest_of entries.new ≡ without_first (forest_of entries.old) }
    ensures entry { forest_of result ≡ first_alone (forest_of entries.old) }
{
    let mut first = mem::replace(entries, Entries::End);
    match &mut first {
        Entries::End => {}
        Entries::File(_, _, after) => mem::swap(entries, &mut **after),
        Entries::Other(_, after) => mem::swap(entries, &mut **after),
        Entries::Dir(_, _, after) => mem::swap(entries, &mut **after),
    }
    first
}

/// What is done to the bytes of a file.
#[derive(Drop)]
pub enum Edit<'a> {
    Append(&'a [u8]),
    Replace(Vec<u8>),
}

/// Edits the file of a name in the directory at a path, if there is one. It stays open, if it is,
/// at its place.
pub fn edit_bytes(
    entries: &mut Entries,
    dir: &[Name],
    name: &Name,
    edit: Edit<'_>,
) -> Result<(), AllocError>
    ensures ok { OnOk result (forest_of entries.new
        ≡ changed (rewritten (edited edit.entry) name.now) (forest_of entries.old) dir.now) }
    ensures err { OnErr result (forest_of entries.new ≡ forest_of entries.old) }
    ensures marked { open_of entries.new ≡ open_of entries.old }
    ensures replaced { is_replace edit.entry ≡ true → IsOk result }
{
    let [next, rest @ ..] = dir else {
        return edit_here(entries, name, edit);
    };
    match entries {
        Entries::End => Ok(()),
        Entries::File(_, _, after) => edit_bytes(after, dir, name, edit),
        Entries::Other(_, after) => edit_bytes(after, dir, name, edit),
        Entries::Dir(first, inside, after) => {
            if *first == *next {
                edit_bytes(inside, rest, name, edit)
            } else {
                edit_bytes(after, dir, name, edit)
            }
        }
    }
}

fn edit_here(entries: &mut Entries, name: &Name, edit: Edit<'_>) -> Result<(), AllocError>
    ensures ok { OnOk result (forest_of entries.new
        ≡ rewritten (edited edit.entry) name.now (forest_of entries.old)) }
    ensures err { OnErr result (forest_of entries.new ≡ forest_of entries.old) }
    ensures marked { open_of entries.new ≡ open_of entries.old }
    ensures replaced { is_replace edit.entry ≡ true → IsOk result }
{
    match entries {
        Entries::End => Ok(()),
        Entries::File(first, file, after) => {
            if *first == *name {
                edit_file(file, edit)
            } else {
                edit_here(after, name, edit)
            }
        }
        Entries::Other(first, after) => {
            if *first == *name {
                Ok(())
            } else {
                edit_here(after, name, edit)
            }
        }
        Entries::Dir(first, _, after) => {
            if *first == *name {
                Ok(())
            } else {
                edit_here(after, name, edit)
            }
        }
    }
}

fn edit_file(file: &mut File, edit: Edit<'_>) -> Result<(), AllocError>
    ensures ok { OnOk result (file.new.bytes.items ≡ edited edit.entry file.old.bytes.items) }
    ensures err { OnErr result (file.new.bytes.items ≡ file.old.bytes.items) }
    ensures place { file.new.place ≡ file.old.place }
    ensures replaced { is_replace edit.entry ≡ true → IsOk result }
{
    match edit {
        Edit::Append(piece) => file.bytes.extend_from_slice(piece),
        Edit::Replace(bytes) => {
            file.bytes = bytes;
            Ok(())
        }
    }
}
