//! What a site is by what its directory holds, what a shorty is, the causes, and the limits at
//! their ends.
use crate::names::is_added;
use crate::tables::{Holds, all_hold, refuses};
use pt_tree::{Kind, Listing, Name};
use pt_walk::{At, Cause, Finding, Form, Limits, LimitsFault, is_shorty, judge};
use std::alloc::Global;

enum Row {
    // What a directory holds; what it is as the top, as another site, and as another site where
    // objects are gathered.
    Site(&'static [(&'static str, Kind)], Finding, Finding, Finding),
    // A cause with its number and its word.
    Cause(Cause, u8, &'static str),
    // An entry, and whether it is a shorty.
    Shorty(&'static str, Kind, bool),
    // The numbers of no limits, and why they aren't.
    NoLimits(&'static [u64; 5], LimitsFault),
}

impl Holds for Row {
    fn holds(&self, alloc: Global) -> bool {
        match self {
            Row::Site(entries, at_top, plain, gathering) => {
                is_site(alloc, entries, *at_top, *plain, *gathering)
            }
            Row::Cause(cause, number, word) => cause.number() == *number && cause.word() == *word,
            Row::Shorty(name, kind, answer) => is_shorty_as(alloc, name, *kind, *answer),
            Row::NoLimits(numbers, fault) => refuses(limits_of(**numbers), *fault),
        }
    }
}

const SITES: &[Row] = &[
    Row::Site(
        &[],
        Finding::Interior,
        Finding::Skip(Cause::Empty),
        Finding::Skip(Cause::Empty),
    ),
    Row::Site(
        &[("a", Kind::Dir), ("bc", Kind::Dir)],
        Finding::Interior,
        Finding::Interior,
        Finding::Interior,
    ),
    Row::Site(
        &[("obj", Kind::Dir)],
        Finding::Skip(Cause::Root),
        Finding::Candidate(0),
        Finding::Candidate(0),
    ),
    Row::Site(
        &[("ef", Kind::Dir), ("obj", Kind::Dir)],
        Finding::Skip(Cause::Root),
        Finding::Candidate(1),
        Finding::Candidate(1),
    ),
    Row::Site(
        &[("a", Kind::Dir), ("abc", Kind::Dir), ("bc", Kind::Dir)],
        Finding::Skip(Cause::Root),
        Finding::Candidate(1),
        Finding::Candidate(1),
    ),
    Row::Site(
        &[("notes.txt", Kind::File), ("obj", Kind::Dir)],
        Finding::Skip(Cause::Root),
        Finding::Skip(Cause::Split),
        Finding::Gathered,
    ),
    Row::Site(
        &[("obj", Kind::Dir), ("z", Kind::File)],
        Finding::Skip(Cause::Root),
        Finding::Skip(Cause::Split),
        Finding::Gathered,
    ),
    Row::Site(
        &[("one", Kind::Dir), ("two", Kind::Dir)],
        Finding::Skip(Cause::Root),
        Finding::Skip(Cause::Split),
        Finding::Gathered,
    ),
    Row::Site(
        &[("readme", Kind::File)],
        Finding::Skip(Cause::Root),
        Finding::Skip(Cause::Split),
        Finding::Gathered,
    ),
    Row::Site(
        &[("x", Kind::File)],
        Finding::Skip(Cause::Root),
        Finding::Skip(Cause::Split),
        Finding::Gathered,
    ),
    Row::Site(
        &[("xy", Kind::File)],
        Finding::Skip(Cause::Root),
        Finding::Skip(Cause::Split),
        Finding::Gathered,
    ),
    Row::Site(
        &[("m", Kind::Other)],
        Finding::Skip(Cause::Root),
        Finding::Skip(Cause::Split),
        Finding::Gathered,
    ),
    Row::Site(
        &[("link", Kind::Other)],
        Finding::Skip(Cause::Root),
        Finding::Skip(Cause::Split),
        Finding::Gathered,
    ),
];

/// The listing of these entries.
pub(crate) fn listing_of(alloc: Global, entries: &[(&str, Kind)]) -> Option<Listing> {
    let mut listing = Listing::new(alloc);
    for (name, kind) in entries {
        if !is_added(&mut listing, alloc, name, *kind, Ok(())) {
            return None;
        }
    }
    Some(listing)
}

// As the top it is judged so in both forms, and as another site by the form.
fn is_judged(listing: &Listing, at_top: Finding, plain: Finding, gathering: Finding) -> bool {
    judge(listing, At::Root, Form::Plain) == at_top
        && judge(listing, At::Root, Form::Gathering) == at_top
        && judge(listing, At::Pair, Form::Plain) == plain
        && judge(listing, At::Last, Form::Plain) == plain
        && judge(listing, At::Pair, Form::Gathering) == gathering
        && judge(listing, At::Last, Form::Gathering) == gathering
}

// So is a directory of these entries.
fn is_site(
    alloc: Global,
    entries: &[(&str, Kind)],
    at_top: Finding,
    plain: Finding,
    gathering: Finding,
) -> bool {
    match listing_of(alloc, entries) {
        Some(listing) => is_judged(&listing, at_top, plain, gathering),
        None => false,
    }
}

const CAUSES: &[Row] = &[
    Row::Cause(Cause::Root, 1, "root"),
    Row::Cause(Cause::Empty, 2, "empty"),
    Row::Cause(Cause::Split, 3, "split"),
    Row::Cause(Cause::Past, 4, "past"),
    Row::Cause(Cause::Name, 5, "name"),
    Row::Cause(Cause::Utf8, 6, "utf8"),
    Row::Cause(Cause::Other, 7, "other"),
    Row::Cause(Cause::Limit, 8, "limit"),
    Row::Cause(Cause::Reserved, 9, "reserved"),
];

// An entry of this name and kind is a shorty, or is none.
fn is_shorty_as(alloc: Global, name: &str, kind: Kind, answer: bool) -> bool {
    match Name::of(alloc, name.as_bytes()) {
        Ok(name) => is_shorty(&name, kind) == answer,
        Err(_) => false,
    }
}

const SHORTIES: &[Row] = &[
    Row::Shorty("a", Kind::Dir, true),
    Row::Shorty("ab", Kind::Dir, true),
    Row::Shorty("abc", Kind::Dir, false),
    Row::Shorty("ab", Kind::File, false),
    Row::Shorty("ab", Kind::Other, false),
];

// The numbers of files, bytes of a path, names on a way, bytes of a file and turns.
fn numbers_of(limits: &Limits) -> [u64; 5] {
    [
        limits.files(),
        limits.path_bytes(),
        limits.depth(),
        limits.file_bytes(),
        limits.turns(),
    ]
}

fn limits_of(numbers: [u64; 5]) -> Result<Limits, LimitsFault> {
    let [files, path_bytes, depth, file_bytes, turns] = numbers;
    Limits::of(files, path_bytes, depth, file_bytes, turns)
}

const GREATEST: [u64; 5] = [1_000_000, 4_000, 600, 8_796_093_022_208, 1_099_511_627_776];

fn are_greatest(limits: Result<Limits, LimitsFault>) -> bool {
    match limits {
        Ok(limits) => numbers_of(&limits) == GREATEST && Limits::greatest() == limits,
        Err(_) => false,
    }
}

fn has_depth(limits: Result<Limits, LimitsFault>, depth: u64) -> bool {
    match limits {
        Ok(limits) => limits.depth() == depth,
        Err(_) => false,
    }
}

#[test]
fn limits_end_at_their_greatest_values(rt: HostRuntime) {
    assert!(rt; are_greatest(limits_of(GREATEST)) && has_depth(limits_of([1, 1, 1, 1, 1]), 1));
    assert!(rt; LimitsFault::Zero.number() == 1 && LimitsFault::TooLarge.number() == 2);
}

const NO_LIMITS: &[Row] = &[
    Row::NoLimits(&[0, 1, 1, 1, 1], LimitsFault::Zero),
    Row::NoLimits(&[1, 0, 1, 1, 1], LimitsFault::Zero),
    Row::NoLimits(&[1, 1, 0, 1, 1], LimitsFault::Zero),
    Row::NoLimits(&[1, 1, 1, 0, 1], LimitsFault::Zero),
    Row::NoLimits(&[1, 1, 1, 1, 0], LimitsFault::Zero),
    Row::NoLimits(&[1_000_001, 1, 1, 1, 0], LimitsFault::Zero),
    Row::NoLimits(&[1_000_001, 1, 1, 1, 1], LimitsFault::TooLarge),
    Row::NoLimits(&[1, 4_001, 1, 1, 1], LimitsFault::TooLarge),
    Row::NoLimits(&[1, 1, 601, 1, 1], LimitsFault::TooLarge),
    Row::NoLimits(&[1, 1, 1, 8_796_093_022_209, 1], LimitsFault::TooLarge),
    Row::NoLimits(&[1, 1, 1, 1, 1_099_511_627_777], LimitsFault::TooLarge),
];

#[test]
fn sites_causes_shorties_and_limits_are_as_the_tables_say(rt: HostRuntime) {
    all_hold(&rt, rt.alloc(), "sites are what the table says", SITES);
    all_hold(&rt, rt.alloc(), "causes have numbers and words", CAUSES);
    all_hold(
        &rt,
        rt.alloc(),
        "shorties are directories of one or two bytes",
        SHORTIES,
    );
    all_hold(&rt, rt.alloc(), "limits that are refused", NO_LIMITS);
}
