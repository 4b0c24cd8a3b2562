//! Stores from one line of text.
use crate::MemSource;
use crate::texts::paths::{answer_planting, path};
use crate::texts::trees::way;
use pt_tree::{NamePath, TreeFault};
use std::alloc::Global;

/// A store of this version with what stands below `pairtree_root`, each entry with a space before
/// it: `a/b=abc` is a file that holds `abc`, `a/b*9` one of nine letters `a`, `a/b/` a directory,
/// and `a/b?` neither. An entry that begins with `pairtree_` stands at the top. `Device` or
/// `Memory` where `plant` answers so for an entry.
pub fn store(alloc: Global, entries: &str) -> Result<MemSource, TreeFault> {
    let mut source = MemSource::new(alloc);
    plant_each(alloc, &mut source, "pairtree_version0_1= pairtree_root/")?;
    plant_each(alloc, &mut source, entries)?;
    Ok(source)
}

fn plant_each(alloc: Global, source: &mut MemSource, entries: &str) -> Result<(), TreeFault> {
    for entry in entries.split(' ') {
        plant(alloc, source, entry)?;
    }
    Ok(())
}

// What an entry is: a file of these bytes, one of so many letters, a directory, or neither.
#[derive(Clone, Copy)]
enum Planting<'a> {
    File(&'a str),
    Letters(&'a str),
    Dir,
    Other,
}

/// Plants one entry, with the directories on the way to it. `Device` where a piece of its path is
/// no name, its number of letters is none, or what is no directory can't be planted; `Memory` where
/// a growth was refused for these. A directory that can't be planted is passed over.
pub fn plant(alloc: Global, source: &mut MemSource, entry: &str) -> Result<(), TreeFault> {
    let (at, what) = parts(entry);
    let at = way(alloc, source, top(alloc, at)?, at)?;
    put(alloc, source, &at, what)
}

// Where an entry is, and what.
fn parts(entry: &str) -> (&str, Planting<'_>) {
    if let Some((at, bytes)) = entry.split_once('=') {
        (at, Planting::File(bytes))
    } else if let Some((at, count)) = entry.split_once('*') {
        (at, Planting::Letters(count))
    } else if let Some(at) = entry.strip_suffix('?') {
        (at, Planting::Other)
    } else {
        (entry, Planting::Dir)
    }
}

fn put(
    alloc: Global,
    source: &mut MemSource,
    at: &NamePath,
    what: Planting<'_>,
) -> Result<(), TreeFault> {
    match what {
        Planting::File(bytes) => answer_planting(source.plant_file(at, bytes.as_bytes())),
        Planting::Letters(count) => match count.parse::<usize>() {
            Ok(count) => answer_planting(source.plant_file(
                at,
                "a".repeat(alloc, count)?.as_bytes(),
            )),
            Err(_) => Err(TreeFault::Device),
        },
        Planting::Other => answer_planting(source.plant_other(at)),
        Planting::Dir => Ok(()),
    }
}

// What an entry stands below.
fn top(alloc: Global, entry: &str) -> Result<NamePath, TreeFault> {
    path(
        alloc,
        if entry.starts_with("pairtree_") {
            ""
        } else {
            "pairtree_root"
        },
    )
}
