//! One walk of two listings: a trail enters them, advances in them, goes back and leaves them.
ghost use Rattle.std.specs.Prelude.{◌≡◌, IsTrue};
ghost use Rattle.pt_walk.specs.Trail.{can_enter, current_entry, is_dir_entry};

use crate::sites::listing_of;
use crate::tables::is_path;
use pt_tree::Kind;
use pt_walk::Trail;
use std::alloc::Global;

fn is_at_directory(trail: &Trail) -> bool
    ensures { result ≡ is_dir_entry (current_entry trail.now) }
{
    match trail.current() {
        Some((_, kind)) => kind == Kind::Dir,
        None => false,
    }
}

fn is_at(trail: &Trail, name: &str, kind: Kind) -> bool {
    match trail.current() {
        Some((at, of)) => at.bytes() == name.as_bytes() && of == kind,
        None => false,
    }
}

fn enters(trail: &mut Trail, alloc: Global, entries: &[(&str, Kind)]) -> bool
    requires { IsTrue (can_enter trail.old) }
{
    match listing_of(alloc, entries) {
        Some(listing) => trail.enter(listing).is_ok(),
        None => false,
    }
}

fn path_is(trail: &Trail, want: &str) -> bool {
    match trail.path() {
        Ok(path) => is_path(&path, want),
        Err(_) => false,
    }
}

// It is at an entry, and passes it.
fn advances(trail: &mut Trail) -> bool {
    if trail.current().is_none() {
        return false;
    }
    trail.advance();
    true
}

// It is in a directory, and goes back to its first entry.
fn goes_back(trail: &mut Trail) -> bool {
    if trail.len() == 0 {
        return false;
    }
    trail.seek(0);
    true
}

// It is in a directory, and leaves it.
fn leaves(trail: &mut Trail) -> bool {
    if trail.len() == 0 {
        return false;
    }
    trail.leave();
    true
}

fn has_innermost(trail: &Trail, entries: usize) -> bool {
    match trail.innermost() {
        Some(listing) => listing.len() == entries,
        None => false,
    }
}

// At the first of the two entries below `ab`; afterwards behind them.
fn passes_both(trail: &mut Trail) -> bool {
    trail.records() == 3
        && trail.len() == 2
        && path_is(trail, "ab")
        && is_at(trail, "c", Kind::Dir)
        && advances(trail)
        && is_at(trail, "x", Kind::File)
        && advances(trail)
        && trail.current().is_none()
}

// Behind the entries below `ab`; afterwards at `ab`.
fn goes_back_and_leaves(trail: &mut Trail) -> bool {
    goes_back(trail)
        && is_at(trail, "c", Kind::Dir)
        && leaves(trail)
        && trail.records() == 1
        && path_is(trail, "")
        && is_at(trail, "ab", Kind::Dir)
        && has_innermost(trail, 1)
}

const TOP: &[(&str, Kind)] = &[("ab", Kind::Dir)];

const BELOW: &[(&str, Kind)] = &[("c", Kind::Dir), ("x", Kind::File)];

// Without entries; afterwards at the first of the two below `ab`.
fn enters_both(trail: &mut Trail, alloc: Global) -> bool
    requires { IsTrue (can_enter trail.old) }
{
    trail.current().is_none()
        && trail.innermost().is_none()
        && enters(trail, alloc, TOP)
        && is_at_directory(trail)
        && enters(trail, alloc, BELOW)
}

fn goes(trail: &mut Trail, alloc: Global) -> bool
    requires { IsTrue (can_enter trail.old) }
{
    enters_both(trail, alloc) && passes_both(trail) && goes_back_and_leaves(trail)
}

#[test]
fn a_trail_enters_advances_and_leaves(rt: HostRuntime) {
    assert!(rt; goes(&mut Trail::new(rt.alloc()), rt.alloc()));
}
