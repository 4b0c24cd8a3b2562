//! The cases: the stores that are swept, what runs leave of them, and a run.
use pt_memory::texts::store;
use pt_memory::{MemDest, MemLog, MemSource};
use pt_move::{Fault, Job, Report, migrate};
use pt_name::{Layout, Share};
use pt_object::{Algorithm, Meta};
use pt_walk::Limits;
use std::alloc::Global;

/// A store, and what stands in the destination before the run.
#[derive(Clone, Copy)]
pub struct Case {
    pub name: &'static str,
    /// What stands below `pairtree_root`, with spaces between: `a/b=abc` is a file that holds
    /// `abc`, `a/b/` a directory, and `a/b?` neither. What begins with `pairtree_` stands at the
    /// top.
    pub entries: &'static str,
    /// The store that an earlier run carried into the destination.
    pub earlier: Option<&'static str>,
    /// The places of the objects that are carried, in their order, with spaces between.
    pub places: &'static str,
}

pub const CASES: &[Case] = &[
    Case {
        name: "one object of one file",
        entries: "ab/c/obj/a.txt=abc",
        earlier: None,
        places: "ba7/816/bf8/abc",
    },
    Case {
        name: "an object among six causes",
        entries: "a/bc/obj/ a^/2/obj/x= ab/c/obj/a.txt=abc ab/cd/f= ab/cd/obj/f= de/ readme= xy/z/obj/m?",
        earlier: None,
        places: "ba7/816/bf8/abc",
    },
    Case {
        name: "two objects, one with equal files and an empty folder",
        entries: "ab/c/obj/a.txt=abc ab/cd/obj/a/x=abc ab/cd/obj/a.txt=abc ab/cd/obj/c= ab/cd/obj/e/",
        earlier: None,
        places: "ba7/816/bf8/abc 88d/426/6fd/abcd",
    },
    Case {
        name: "a prefix and a taken place",
        entries: "pairtree_prefix=a\n bc/abc/a.txt=abc bc/d/abcd/f=xyz",
        earlier: Some("ab/c/obj/a.txt=abc"),
        places: "88d/426/6fd/abcd",
    },
];

// The greatest limits, and three tuples of three digits.
fn make_job(alloc: Global) -> Option<Job> {
    let limits = Limits::of(1_000_000, 4_000, 600, 1 << 43, 1 << 40).ok()?;
    let meta = Meta::of(
        alloc,
        "2024-05-01T12:00:00Z",
        "Ada",
        None,
        "Migrated from Pairtree",
    );
    Some(Job {
        meta: meta.ok()?,
        layout: Layout::default_form(),
        algorithm: Algorithm::Sha512,
        limits,
        gather: false,
        share: Share::whole(),
    })
}

/// A run of that job.
pub fn run(
    alloc: Global,
    source: &mut MemSource,
    dest: &mut MemDest,
    log: &mut MemLog,
) -> Option<Result<Report, Fault>> {
    Some(migrate(alloc, source, dest, log, make_job(alloc)?))
}

/// Carries a store with these entries, by a run that nothing stops.
pub fn carry(
    alloc: Global,
    entries: &str,
    dest: &mut MemDest,
    log: &mut MemLog,
) -> Option<Result<Report, Fault>> {
    let mut source = store(alloc, entries).ok()?;
    run(alloc, &mut source, dest, log)
}

/// The destination before the run.
pub fn make_dest_before(alloc: Global, case: &Case) -> Option<MemDest> {
    carry_both(alloc, case.earlier, None)
}

/// The destination after a run that nothing stops.
pub fn make_whole_dest(alloc: Global, case: &Case) -> Option<MemDest> {
    carry_both(alloc, case.earlier, Some(case.entries))
}

// The destination after runs over two stores, each of which may be none.
fn carry_both(alloc: Global, first: Option<&str>, second: Option<&str>) -> Option<MemDest> {
    let mut dest = MemDest::new(alloc);
    let is_carried = carry_well(alloc, first, &mut dest) && carry_well(alloc, second, &mut dest);
    is_carried.then_some(dest)
}

// Whether a store, if any, is carried to its end.
fn carry_well(alloc: Global, entries: Option<&str>, dest: &mut MemDest) -> bool {
    match entries {
        Some(entries) => {
            let answer = carry(alloc, entries, dest, &mut MemLog::new(alloc));
            matches!(answer, Some(Ok(_)))
        }
        None => true,
    }
}
