//! Names of all lengths, alone, in paths and in a listing. One of up to 21 bytes is held otherwise
//! than a longer one, which shows nowhere.
use crate::tables::{Holds, all_hold, gives_bytes};
use pt_tree::{Kind, Listing, MemoryFault, Name, NamePath};
use std::alloc::{AllocError, Global};

const OF_1: &[u8] = b"k";

const OF_20: &[u8] = &[b'b'; 20];

const OF_21: &[u8] = &[b'c'; 21];

const OF_22: &[u8] = &[b'd'; 22];

const OF_36: &[u8] = &[b'e'; 36];

const OF_40: &[u8] = &[b'f'; 40];

const OF_255: &[u8] = &[b'g'; 255];

enum Row {
    // The name of so many letters `a` is shown as the list of their numbers.
    Shown(usize),
    // One name comes before another, and isn't equal to it.
    Before(&'static [u8], &'static [u8]),
    // The names of a path, and its text.
    Joined(&'static [&'static [u8]], &'static [u8]),
    // Names in their order, which a listing holds.
    Listed(&'static [&'static [u8]]),
}

impl Holds for Row {
    fn holds(&self, alloc: Global) -> bool {
        match self {
            Row::Shown(letters) => is_shown(alloc, *letters).unwrap_or(false),
            Row::Before(first, then) => come_in_order(alloc, first, then),
            Row::Joined(names, text) => joins_to(alloc, names, text),
            Row::Listed(names) => are_listed(alloc, names),
        }
    }
}

fn is_shown(alloc: Global, letters: usize) -> Result<bool, AllocError> {
    let bytes = b"a".repeat(alloc, letters)?;
    let Ok(name) = Name::of(alloc, &bytes) else {
        return Ok(false);
    };
    let others = ", 97".repeat(alloc, letters.saturating_sub(1))?;
    let want = format!(in alloc; "Name {{ text: Shared([97{others}]) }}")?;
    let shown = format!(in alloc; "{name:?}")?;
    Ok(shown.as_str() == want.as_str() && is_shown_in_a_path(alloc, name, &want)?)
}

// However a path holds its names, it is shown as their list.
fn is_shown_in_a_path(alloc: Global, name: Name, shown: &str) -> Result<bool, AllocError> {
    let mut path = NamePath::new(alloc);
    if path.push(name).is_err() {
        return Ok(false);
    }
    let Ok(kept) = NamePath::of_names(alloc, path.names()) else {
        return Ok(false);
    };
    let want = format!(in alloc; "NamePath {{ names: [{shown}] }}")?;
    let path = format!(in alloc; "{path:?}")?;
    let kept = format!(in alloc; "{kept:?}")?;
    Ok(path.as_str() == want.as_str() && kept.as_str() == want.as_str())
}

const SHOWN: &[Row] = &[
    Row::Shown(1),
    Row::Shown(20),
    Row::Shown(21),
    Row::Shown(22),
    Row::Shown(36),
    Row::Shown(40),
    Row::Shown(255),
];

fn come_in_order(alloc: Global, first: &[u8], then: &[u8]) -> bool {
    match (Name::of(alloc, first), Name::of(alloc, then)) {
        (Ok(first), Ok(then)) => are_in_order(&first, &then),
        _ => false,
    }
}

fn are_in_order(first: &Name, then: &Name) -> bool {
    first < then && !(then < first) && *first != *then && is_copied(first) && is_copied(then)
}

fn is_copied(name: &Name) -> bool {
    match name.copy() {
        Ok(copy) => copy == *name && copy.bytes() == name.bytes() && !(copy < *name),
        Err(_) => false,
    }
}

const IN_ORDER: &[Row] = &[
    Row::Before(OF_20, OF_21),
    Row::Before(OF_21, OF_22),
    Row::Before(OF_22, OF_1),
    Row::Before(OF_22, OF_36),
    Row::Before(OF_40, OF_255),
    Row::Before(b"aaaaaaaaaaaaaaaaaaaa", b"aaaaaaaaaaaaaaaaaaaaa"),
    Row::Before(b"aaaaaaaaaaaaaaaaaaaaa", b"aaaaaaaaaaaaaaaaaaaaaa"),
    Row::Before(b"aaaaaaaaaaaaaaaaaaaaaa", b"aaaaaaaaaaaaaaaaaaaab"),
    Row::Before(b"aaaaaaaaaaaaaaaaaaaab", b"aaaaaaaaaaaaaaaaaaaaba"),
];

// The path of these names.
fn path_of(alloc: Global, names: &[&[u8]]) -> Option<NamePath> {
    let mut path = NamePath::new(alloc);
    for name in names {
        let name = Name::of(alloc, name).ok()?;
        path.push(name).ok()?;
    }
    Some(path)
}

fn joins_to(alloc: Global, names: &[&[u8]], text: &[u8]) -> bool {
    match path_of(alloc, names) {
        Some(path) => {
            has_text(&path, text) && is_told(alloc, &path, text) && is_kept(alloc, &path, text)
        }
        None => false,
    }
}

// The path has this text, and so has a copy, which is the same path.
fn has_text(path: &NamePath, text: &[u8]) -> bool {
    match path.copy() {
        Ok(copy) => {
            copy == *path && gives_bytes(path.join(), text) && gives_bytes(copy.join(), text)
        }
        Err(_) => false,
    }
}

// The text comes behind another, and the path is cut out of it again.
fn is_told(alloc: Global, path: &NamePath, text: &[u8]) -> bool {
    let again = match NamePath::of_text(alloc, text) {
        Ok(again) => again == *path,
        Err(_) => false,
    };
    let mut front = Vec::new(alloc);
    again
        && front.extend_from_slice(b"v1/").is_ok()
        && path.join_behind(&mut front).is_ok()
        && front.starts_with(b"v1/")
        && front.ends_with(text)
        && front.len() == text.len() + 3
}

// So it is with the path for keeping, which stays as it is when a copy of it goes on.
fn is_kept(alloc: Global, path: &NamePath, text: &[u8]) -> bool {
    match NamePath::of_names(alloc, path.names()) {
        Ok(kept) => {
            kept == *path
                && has_text(&kept, text)
                && goes_on(&kept).unwrap_or(false)
                && has_text(&kept, text)
        }
        Err(_) => false,
    }
}

// A copy goes on with its own first name, at the end and at the front.
fn goes_on(path: &NamePath) -> Result<bool, MemoryFault> {
    let Some(name) = path.get(0) else {
        return Ok(true);
    };
    let mut longer = path.copy()?;
    longer.push(name.copy()?)?;
    let mut second = path.copy()?;
    second.push_front(name.copy()?)?;
    let count = path.len();
    Ok(
        longer.len() == count.saturating_add(1)
            && longer == path.child(name)?
            && longer.names().starts_with(path.names())
            && second.names().ends_with(path.names())
            && second.get(0) == Some(name),
    )
}

const JOINED: &[Row] = &[
    Row::Joined(&[], b""),
    Row::Joined(&[OF_1], b"k"),
    Row::Joined(&[OF_20], b"bbbbbbbbbbbbbbbbbbbb"),
    Row::Joined(&[OF_21], b"ccccccccccccccccccccc"),
    Row::Joined(&[OF_22], b"dddddddddddddddddddddd"),
    Row::Joined(
        &[OF_255],
        b"ggggggggggggggggggggggggggggggggggggggggggggggggggggggggggggggggggggggggggggggggggggggggggggggggggggggggggggggggggggggggggggggggggggggggggggggggggggggggggggggggggggggggggggggggggggggggggggggggggggggggggggggggggggggggggggggggggggggggggggggggggggggggggggggg",
    ),
    Row::Joined(
        &[OF_20, OF_21, OF_22],
        b"bbbbbbbbbbbbbbbbbbbb/ccccccccccccccccccccc/dddddddddddddddddddddd",
    ),
    Row::Joined(
        &[OF_22, OF_21, OF_20],
        b"dddddddddddddddddddddd/ccccccccccccccccccccc/bbbbbbbbbbbbbbbbbbbb",
    ),
    Row::Joined(
        &[OF_1, OF_36, OF_1, OF_40, OF_21],
        b"k/eeeeeeeeeeeeeeeeeeeeeeeeeeeeeeeeeeee/k/ffffffffffffffffffffffffffffffffffffffff/ccccccccccccccccccccc",
    ),
    Row::Joined(
        &[OF_40, OF_36, OF_22],
        b"ffffffffffffffffffffffffffffffffffffffff/eeeeeeeeeeeeeeeeeeeeeeeeeeeeeeeeeeee/dddddddddddddddddddddd",
    ),
    Row::Joined(
        &[OF_21, OF_21, OF_255, OF_1, OF_20, OF_22],
        b"ccccccccccccccccccccc/ccccccccccccccccccccc/ggggggggggggggggggggggggggggggggggggggggggggggggggggggggggggggggggggggggggggggggggggggggggggggggggggggggggggggggggggggggggggggggggggggggggggggggggggggggggggggggggggggggggggggggggggggggggggggggggggggggggggggggggggggggggggggggggggggggggggggggggggggggggggggg/k/bbbbbbbbbbbbbbbbbbbb/dddddddddddddddddddddd",
    ),
];

fn are_listed(alloc: Global, names: &[&[u8]]) -> bool {
    let mut listing = Listing::new(alloc);
    for name in names {
        let Ok(name) = Name::of(alloc, name) else {
            return false;
        };
        if listing.add(name, Kind::File).is_err() {
            return false;
        }
    }
    has_names(&listing, names)
}

fn has_names(listing: &Listing, names: &[&[u8]]) -> bool {
    for (i, name) in names.iter().enumerate() {
        match listing.get(i) {
            Some((found, _)) if found.bytes() == *name => {}
            _ => return false,
        }
    }
    listing.len() == names.len()
}

const LISTED: &[Row] = &[Row::Listed(&[OF_20, OF_21, OF_22, OF_36, OF_40, OF_255, OF_1])];

#[test]
fn names_of_all_lengths_go_alike(rt: HostRuntime) {
    all_hold(&rt, rt.alloc(), "a name is shown by its bytes", SHOWN);
    all_hold(
        &rt,
        rt.alloc(),
        "names come in the order of their bytes",
        IN_ORDER,
    );
    all_hold(
        &rt,
        rt.alloc(),
        "a path's text has its names' bytes",
        JOINED,
    );
    all_hold(&rt, rt.alloc(), "a listing holds its names", LISTED);
}
