//! A source without the entries of some names, and one that is watched: what a look shows, what
//! fails, and what is counted.
use crate::memory_trees::{Goes, find_wrong_row};
use crate::tables::none_goes_wrong;
use pt_memory::texts::add;
use pt_memory::{LooseSource, MemSource};
use pt_tree::{Ignored, Ignoring, Kind, Name, NamePath, Source, TreeFault, Watched, Watcher};
use std::alloc::Global;

// What is asked of a path of such a source.
enum Asked {
    // A look at what stands there is answered so.
    Shows(Result<Option<Kind>, TreeFault>),
    // So many entries are left of what the directory lists.
    Lists(usize),
    // The source failed so often.
    Failed(u64),
}

impl Goes<Asked> for Ignoring<LooseSource> {
    fn goes(&mut self, _: Global, at: &NamePath, what: &Asked) -> bool {
        match what {
            Asked::Shows(answer) => shows_left(self, at, *answer),
            Asked::Lists(entries) => lists_left(self, at, *entries),
            Asked::Failed(failures) => self.failures() == *failures,
        }
    }
}

#[tactic(auto, unfolding(pt_tree::specs::Source::CanLook))]
fn shows_left(
    source: &mut Ignoring<LooseSource>,
    at: &NamePath,
    answer: Result<Option<Kind>, TreeFault>,
) -> bool {
    source.kind(at) == answer
}

#[tactic(auto, unfolding(pt_tree::specs::Source::CanList))]
fn lists_left(source: &mut Ignoring<LooseSource>, at: &NamePath, entries: usize) -> bool {
    match source.list(at) {
        Ok(listing) => listing.len() == entries,
        Err(_) => false,
    }
}

// Who counts the paths that are come to.
#[derive(Drop)]
struct Comings {
    count: usize,
}

impl Watcher for Comings {
    fn come_to(&mut self, _: &NamePath) {
        self.count = self.count.saturating_add(1);
    }

    fn read_on(&mut self) {}

    fn add_bytes(&mut self, _: usize) {}
}

impl Goes<Asked> for Watched<LooseSource, Comings> {
    fn goes(&mut self, _: Global, at: &NamePath, what: &Asked) -> bool {
        match what {
            Asked::Shows(answer) => shows_watched(self, at, *answer),
            Asked::Lists(entries) => lists_watched(self, at, *entries),
            Asked::Failed(failures) => self.failures() == *failures,
        }
    }
}

// A look isn't told.
#[tactic(auto, unfolding(pt_tree::specs::Source::CanLook))]
fn shows_watched(
    source: &mut Watched<LooseSource, Comings>,
    at: &NamePath,
    answer: Result<Option<Kind>, TreeFault>,
) -> bool {
    let before = source.watcher().count;
    source.kind(at) == answer && source.watcher().count == before
}

// A listing is.
#[tactic(auto, unfolding(pt_tree::specs::Source::CanList))]
fn lists_watched(
    source: &mut Watched<LooseSource, Comings>,
    at: &NamePath,
    entries: usize,
) -> bool {
    let before = source.watcher().count;
    match source.list(at) {
        Ok(listing) => {
            listing.len() == entries && source.watcher().count == before.saturating_add(1)
        }
        Err(_) => false,
    }
}

const FILES: &[(&str, &str)] = &[
    ("d/f", "a"),
    ("d/x/g", "b"),
    ("e", "c"),
    ("x/f", "d"),
    ("xx", "e"),
];

// The tree, which tells nothing, with a fuse of so many calls.
fn loose_tree(alloc: Global, calls: u64) -> Result<LooseSource, TreeFault> {
    let mut source = MemSource::new(alloc);
    add(alloc, &mut source, FILES)?;
    source.fuse(Some(calls));
    Ok(LooseSource::of(source))
}

// The same without the entries that have the name `x`.
fn tree_left(alloc: Global, calls: u64) -> Result<Ignoring<LooseSource>, TreeFault> {
    let source = loose_tree(alloc, calls)?;
    let mut names = Ignored::new(alloc);
    let Ok(name) = Name::of(alloc, b"x") else {
        return Err(TreeFault::Memory);
    };
    names.add(name)?;
    Ok(Ignoring::new(source, names))
}

// Each look is one call of the source, also past a name that is left out: the twelfth call fails.
const LEFT: &[(&str, Asked)] = &[
    ("", Asked::Shows(Ok(Some(Kind::Dir)))),
    ("d", Asked::Shows(Ok(Some(Kind::Dir)))),
    ("d/f", Asked::Shows(Ok(Some(Kind::File)))),
    ("d/x", Asked::Shows(Ok(None))),
    ("d/x/g", Asked::Shows(Ok(None))),
    ("x", Asked::Shows(Ok(None))),
    ("x/f", Asked::Shows(Ok(None))),
    ("xx", Asked::Shows(Ok(Some(Kind::File)))),
    ("e", Asked::Shows(Ok(Some(Kind::File)))),
    ("e/f", Asked::Shows(Ok(None))),
    ("d", Asked::Lists(1)),
    ("", Asked::Failed(0)),
    ("x", Asked::Shows(Err(TreeFault::Device))),
    ("", Asked::Failed(1)),
];

const WATCHED: &[(&str, Asked)] = &[
    ("d", Asked::Lists(2)),
    ("d/x", Asked::Shows(Ok(Some(Kind::Dir)))),
    ("x/f", Asked::Shows(Ok(Some(Kind::File)))),
    ("y", Asked::Shows(Ok(None))),
    ("", Asked::Failed(0)),
    ("d", Asked::Shows(Err(TreeFault::Device))),
    ("", Asked::Failed(1)),
];

#[test]
fn a_look_past_an_ignored_name_finds_nothing(rt: HostRuntime) {
    let wrong = match tree_left(rt.alloc(), 11) {
        Ok(source) => find_wrong_row(source, rt.alloc(), LEFT),
        Err(_) => Some(0),
    };
    none_goes_wrong(&rt, "without the entries of a name", wrong);
}

#[test]
fn a_look_at_a_watched_source_is_the_source_s(rt: HostRuntime) {
    let wrong = match loose_tree(rt.alloc(), 4) {
        Ok(source) => {
            let watched = Watched::new(source, Comings { count: 0 });
            find_wrong_row(watched, rt.alloc(), WATCHED)
        }
        Err(_) => Some(0),
    };
    none_goes_wrong(&rt, "watched", wrong);
}
