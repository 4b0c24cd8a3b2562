//! The entries of a memory tree: the type, and looking things up in it.
ghost use Rattle.std.specs.Prelude.{◌≡◌, true, IfOk};
ghost use Rattle.std.specs.Option.{option_map};
ghost use Rattle.pt_tree.specs.Forest.{Dir, find as find_in, node_at, listing_of, is_proper};
ghost use Rattle.pt_tree.specs.Forest.{same_forest};
ghost use Rattle.pt_memory.specs.Entries.{forest_of, node_of, head_of, first_item};

use pt_tree::{Kind, Listing, ListingFault, MemoryFault, Name};
use std::alloc::Global;

/// A file's bytes, and the place where it is read on if it is the open one.
#[derive(Debug, Drop)]
pub struct File {
    pub bytes: Vec<u8>,
    pub place: Option<usize>,
}

/// The entries of a directory in the order of their names: the first one, and those after it.
#[derive(Debug, Drop)]
pub enum Entries {
    End,
    File(Name, File, Box<Entries>),
    Other(Name, Box<Entries>),
    Dir(Name, Box<Entries>, Box<Entries>),
}

/// What stands at a path.
#[derive(Clone, Copy)]
pub enum Found<'a> {
    File(&'a [u8]),
    Dir(&'a Entries),
    Other,
}

/// What stands at a name of the directory.
pub fn find<'a>(entries: &'a Entries, name: &Name) -> Option<Found<'a>>
    ensures { option_map node_of result ≡ find_in (forest_of entries.now) name.now }
{
    match entries {
        Entries::End => None,
        Entries::File(first, file, after) => {
            if first == name {
                Some(Found::File(&file.bytes))
            } else {
                find(after, name)
            }
        }
        Entries::Other(first, after) => {
            if first == name {
                Some(Found::Other)
            } else {
                find(after, name)
            }
        }
        Entries::Dir(first, inside, after) => {
            if first == name {
                Some(Found::Dir(inside))
            } else {
                find(after, name)
            }
        }
    }
}

/// What stands at a path below the directory; the empty path is the directory itself.
pub fn at<'a>(entries: &'a Entries, path: &[Name]) -> Option<Found<'a>>
    ensures { option_map node_of result ≡ node_at (Dir (forest_of entries.now)) path.now }
{
    let [name, rest @ ..] = path else {
        return Some(Found::Dir(entries));
    };
    match find(entries, name)? {
        Found::Dir(inside) => at(inside, rest),
        Found::File(bytes) => {
            if rest.is_empty() {
                Some(Found::File(bytes))
            } else {
                None
            }
        }
        Found::Other => {
            if rest.is_empty() {
                Some(Found::Other)
            } else {
                None
            }
        }
    }
}

/// The names and kinds of the directory, of a proper tree.
pub fn list(alloc: Global, entries: &Entries) -> Result<Listing, MemoryFault>
    requires { is_proper (forest_of entries.now) ≡ true }
    ensures { IfOk result (λ listing. listing ≡ listing_of (forest_of entries.now)) }
{
    let mut listing = Listing::new(alloc);
    let mut rest = entries;
    while let Some((name, kind, after)) = first(rest) {
        match listing.add(name.copy()?, kind) {
            Ok(()) => rest = after,
            Err(ListingFault::Memory) => return Err(MemoryFault::Memory),
            Err(ListingFault::NotRising) => unreachable!(),
        }
    }
    Ok(listing)
}

fn first(entries: &Entries) -> Option<(&Name, Kind, &Entries)>
    ensures { option_map head_of result ≡ first_item (forest_of entries.now) }
{
    match entries {
        Entries::End => None,
        Entries::File(name, _, after) => Some((name, Kind::File, after)),
        Entries::Other(name, after) => Some((name, Kind::Other, after)),
        Entries::Dir(name, _, after) => Some((name, Kind::Dir, after)),
    }
}

/// Whether the two hold the same names and bytes.
pub fn same(a: &Entries, b: &Entries) -> bool
    ensures { result ≡ same_forest (forest_of a.now) (forest_of b.now) }
{
    match (a, b) {
        (Entries::End, Entries::End) => true,
        (Entries::File(m, x, after), Entries::File(n, y, others)) => {
            m == n && x.bytes.as_slice() == y.bytes.as_slice() && same(after, others)
        }
        (Entries::Other(m, after), Entries::Other(n, others)) => m == n && same(after, others),
        (Entries::Dir(m, x, after), Entries::Dir(n, y, others)) => {
            m == n && same(x, y) && same(after, others)
        }
        _ => false,
    }
}
