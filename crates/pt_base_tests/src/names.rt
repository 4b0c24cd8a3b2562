//! Names, paths and listings: what is one and what is none, and their order.
use crate::tables::{Holds, all_hold, is_path, none_goes_wrong, refuses};
use pt_memory::texts::path;
use pt_tree::{Kind, Listing, ListingFault, Name, NameFault, NamePath};
use std::alloc::Global;

const A_255: &[u8] = &[b'a'; 255];

const A_256: &[u8] = &[b'a'; 256];

// 256 bytes that are no text.
const BROKEN_256: &[u8] =
    b"\xffaaaaaaaaaaaaaaaaaaaaaaaaaaaaaaaaaaaaaaaaaaaaaaaaaaaaaaaaaaaaaaaaaaaaaaaaaaaaaaaaaaaaaaaaaaaaaaaaaaaaaaaaaaaaaaaaaaaaaaaaaaaaaaaaaaaaaaaaaaaaaaaaaaaaaaaaaaaaaaaaaaaaaaaaaaaaaaaaaaaaaaaaaaaaaaaaaaaaaaaaaaaaaaaaaaaaaaaaaaaaaaaaaaaaaaaaaaaaaaaaaaaaaaaaaaaaaaa";

enum Row {
    // These bytes are a name.
    Name(&'static [u8]),
    // These are none, and why.
    NoName(&'static [u8], NameFault),
    // One name comes before another.
    Before(&'static str, &'static str),
    // The text of a path of so many names.
    Path(&'static str, usize),
    // What is no such text, and why.
    NoPath(&'static [u8], NameFault),
}

impl Holds for Row {
    fn holds(&self, alloc: Global) -> bool {
        match self {
            Row::Name(bytes) => is_name(alloc, bytes),
            Row::NoName(bytes, fault) => refuses(Name::of(alloc, bytes), *fault),
            Row::Before(first, then) => comes_before(alloc, first, then),
            Row::Path(text, names) => is_text_of(alloc, text, *names),
            Row::NoPath(text, fault) => refuses(NamePath::of_text(alloc, text), *fault),
        }
    }
}

const NO_NAMES: &[Row] = &[
    Row::NoName(b"", NameFault::Empty),
    Row::NoName(A_256, NameFault::TooLong),
    Row::NoName(BROKEN_256, NameFault::TooLong),
    Row::NoName(b"\xff", NameFault::NotUtf8),
    Row::NoName(b"a/b", NameFault::Forbidden),
    Row::NoName(b"a\0b", NameFault::Forbidden),
    Row::NoName(b".", NameFault::Forbidden),
    Row::NoName(b"..", NameFault::Forbidden),
];

// These bytes are a name, and so is its copy.
fn is_name(alloc: Global, bytes: &[u8]) -> bool {
    match Name::of(alloc, bytes) {
        Ok(name) => name.bytes() == bytes && is_copied(&name),
        Err(_) => false,
    }
}

fn is_copied(name: &Name) -> bool {
    match name.copy() {
        Ok(copy) => copy == *name,
        Err(_) => false,
    }
}

const NAMES: &[Row] = &[Row::Name(b"obj"), Row::Name(b"..."), Row::Name(A_255)];

fn comes_before(alloc: Global, first: &str, then: &str) -> bool {
    match Name::of(alloc, first.as_bytes()) {
        Ok(first) => is_less(alloc, &first, then),
        Err(_) => false,
    }
}

fn is_less(alloc: Global, first: &Name, then: &str) -> bool {
    match Name::of(alloc, then.as_bytes()) {
        Ok(then) => *first < then,
        Err(_) => false,
    }
}

const IN_ORDER: &[Row] = &[
    Row::Before("a", "a.txt"),
    Row::Before("a.txt", "b"),
    Row::Before("Z", "a"),
];

fn path_is_copied(path: &NamePath) -> bool {
    match path.copy() {
        Ok(copy) => copy == *path,
        Err(_) => false,
    }
}

fn is_name_of(name: Option<&Name>, text: &str) -> bool {
    match name {
        Some(name) => name.bytes() == text.as_bytes(),
        None => false,
    }
}

// The path is `x/y`.
fn is_joined(path: &NamePath) -> bool {
    path.len() == 2
        && is_path(path, "x/y")
        && is_name_of(path.get(1), "y")
        && path.get(2).is_none()
        && path_is_copied(path)
}

fn is_below(path: &NamePath, top: &NamePath) -> bool {
    is_joined(path) && top.is_empty() && is_path(top, "") && *path != *top
}

fn joins(alloc: Global) -> bool {
    match path(alloc, "x/y") {
        Ok(path) => is_below(&path, &NamePath::new(alloc)),
        Err(_) => false,
    }
}

#[test]
fn a_path_joins_its_names_with_slashes(rt: HostRuntime) {
    assert!(rt; joins(rt.alloc()));
}

// A text is the path of so many names, whose text it is again.
fn is_text_of(alloc: Global, text: &str, names: usize) -> bool {
    match NamePath::of_text(alloc, text.as_bytes()) {
        Ok(path) => path.len() == names && is_path(&path, text),
        Err(_) => false,
    }
}

const PATHS: &[Row] = &[
    Row::Path("", 0),
    Row::Path("a", 1),
    Row::Path("pairtree_root/a\u{308}/b c", 3),
    Row::Path("a/.../b", 3),
];

const NO_PATHS: &[Row] = &[
    Row::NoPath(b"/", NameFault::Empty),
    Row::NoPath(b"/a", NameFault::Empty),
    Row::NoPath(b"a/", NameFault::Empty),
    Row::NoPath(b"a//b", NameFault::Empty),
    Row::NoPath(b"a/../b", NameFault::Forbidden),
    Row::NoPath(b"a/b\0", NameFault::Forbidden),
    Row::NoPath(b"a/\xff", NameFault::NotUtf8),
    Row::NoPath(A_256, NameFault::TooLong),
    Row::NoPath(b"..//a", NameFault::Forbidden),
    Row::NoPath(b"/..", NameFault::Empty),
];

#[test]
fn names_and_paths_are_taken_or_refused(rt: HostRuntime) {
    all_hold(&rt, rt.alloc(), "names are refused in order", NO_NAMES);
    all_hold(&rt, rt.alloc(), "names have up to 255 bytes", NAMES);
    all_hold(
        &rt,
        rt.alloc(),
        "names come in the order of their bytes",
        IN_ORDER,
    );
    all_hold(&rt, rt.alloc(), "a path is cut out of its text", PATHS);
    all_hold(
        &rt,
        rt.alloc(),
        "a text with a piece that is no name is no path",
        NO_PATHS,
    );
}

/// Adding an entry of this name is answered so.
pub(crate) fn is_added(
    listing: &mut Listing,
    alloc: Global,
    name: &str,
    kind: Kind,
    answer: Result<(), ListingFault>,
) -> bool {
    match Name::of(alloc, name.as_bytes()) {
        Ok(name) => listing.add(name, kind) == answer,
        Err(_) => false,
    }
}

/// The listing has this entry at this place, or none there.
pub(crate) fn is_entry(listing: &Listing, place: usize, entry: Option<(&str, Kind)>) -> bool {
    match (listing.get(place), entry) {
        (Some((name, kind)), Some((text, of))) => name.bytes() == text.as_bytes() && kind == of,
        (None, None) => true,
        _ => false,
    }
}

// What is done with a listing, or found in it.
enum Step {
    // An entry is added, and how that is answered.
    Add(&'static str, Kind, Result<(), ListingFault>),
    // The entry at this place, or none.
    Entry(usize, Option<(&'static str, Kind)>),
    // How many entries it has.
    Len(usize),
}

fn goes(listing: &mut Listing, alloc: Global, step: &Step) -> bool {
    match step {
        Step::Add(name, kind, answer) => is_added(listing, alloc, name, *kind, *answer),
        Step::Entry(place, entry) => is_entry(listing, *place, *entry),
        Step::Len(len) => listing.len() == *len && listing.is_empty() == (*len == 0),
    }
}

fn find_wrong_step(listing: &mut Listing, alloc: Global, steps: &[Step]) -> Option<usize> {
    for (i, step) in steps.iter().enumerate() {
        if !goes(listing, alloc, step) {
            return Some(i);
        }
    }
    None
}

const RISING: &[Step] = &[
    Step::Len(0),
    Step::Add("b", Kind::File, Ok(())),
    Step::Add("a", Kind::Dir, Err(ListingFault::NotRising)),
    Step::Add("b", Kind::Dir, Err(ListingFault::NotRising)),
    Step::Add("b.txt", Kind::Other, Ok(())),
    Step::Entry(0, Some(("b", Kind::File))),
    Step::Entry(1, Some(("b.txt", Kind::Other))),
    Step::Entry(2, None),
    Step::Len(2),
];

#[test]
fn a_listing_takes_rising_names_alone(rt: HostRuntime) {
    let wrong = find_wrong_step(&mut Listing::new(rt.alloc()), rt.alloc(), RISING);
    none_goes_wrong(&rt, "a listing", wrong);
}
