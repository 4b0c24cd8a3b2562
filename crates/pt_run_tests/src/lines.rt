//! The lines, the turns and the most records of runs over worked stores: objects, what is passed
//! over or gathered.
#![tactic(auto)]

use crate::expected_roots::{LINES, STORE};
use crate::jobs::{Goes, Settings, goes_over_store, make_job, make_steps};
use pt_memory::{MemDest, MemLog, MemSource};
use pt_move::{Mover, Report};
use std::alloc::Global;
use std::process::Abort;

// What comes of a run to its end.
#[derive(Clone, Copy)]
pub(crate) enum Outcome<'a> {
    // The turns, the most records held between two turns, and the lines.
    Most(u64, u128, &'a str),
    // The turns and the lines.
    Turns(u64, &'a str),
    // The lines.
    Lines(&'a str),
    // Whether the one object is passed over at the limit, and else it is carried; and the turns.
    Limit(u64, bool),
    // One object is carried, and this is its line, which the end line alone follows.
    Carried(&'a str),
}

// The entries of a store, what the job has that isn't as usual, and what comes of the run.
#[derive(Clone, Copy)]
pub(crate) struct Run<'a>(
    pub(crate) &'a str,
    pub(crate) Settings,
    pub(crate) Outcome<'a>,
);

impl Goes<MemSource> for Run<'_> {
    fn goes(
        &self,
        alloc: Global,
        source: &mut MemSource,
        dest: &mut MemDest,
        log: &mut MemLog,
    ) -> bool {
        let Run(_, settings, outcome) = self;
        match make_job(alloc, *settings) {
            Some(job) => {
                let mut mover = Mover::start(alloc, job);
                let (_, most) = make_steps(&mut mover, source, dest, log, 100_000);
                is_outcome(mover.report(), most, log, outcome)
            }
            None => false,
        }
    }
}

fn is_outcome(report: Report, most: u128, log: &MemLog, outcome: &Outcome<'_>) -> bool {
    match outcome {
        Outcome::Most(turns, records, lines) => {
            report.turns == *turns && most == *records && has(log, lines)
        }
        Outcome::Turns(turns, lines) => report.turns == *turns && has(log, lines),
        Outcome::Lines(lines) => has(log, lines),
        Outcome::Limit(turns, is_passed) => {
            report.turns == *turns && counts_one(report, *is_passed) && has_one(log, *is_passed)
        }
        Outcome::Carried(line) => {
            counts_one(report, false)
                && log.bytes().strip_prefix(line.as_bytes()) == Some(ONE_DONE.as_bytes())
        }
    }
}

// Whether one object was carried, or one passed over, and nothing else told.
fn counts_one(report: Report, is_passed: bool) -> bool {
    let wanted = if is_passed { (0, 0, 1) } else { (1, 0, 0) };
    (report.done, report.present, report.skipped) == wanted
}

fn has(log: &MemLog, lines: &str) -> bool {
    log.bytes() == lines.as_bytes()
}

// The end lines where one object is carried, and where one is passed over.
const ONE_DONE: &str = "{\"as\":\"end\",\"done\":1,\"present\":0,\"skip\":0}\n";

const ONE_SKIP: &str =
    "\"cause\":\"limit\"}\n{\"as\":\"end\",\"done\":0,\"present\":0,\"skip\":1}\n";

// Whether the log ends with one object that is carried, or that is passed over at the limit.
fn has_one(log: &MemLog, is_passed: bool) -> bool {
    let end = if is_passed { ONE_SKIP } else { ONE_DONE };
    log.bytes().ends_with(end.as_bytes())
}

pub(crate) fn goes(alloc: Global, run: &Run<'_>) -> bool {
    goes_over_store(alloc, run.0, run)
}

// The first of these runs that goes otherwise, counted from 0.
fn find_wrong_run(alloc: Global, runs: &[Run<'static>]) -> Option<usize> {
    for (i, run) in runs.iter().enumerate() {
        if !goes(alloc, run) {
            return Some(i);
        }
    }
    None
}

pub(crate) fn all_go(rt: &impl Abort, alloc: Global, what: &str, runs: &[Run<'static>]) {
    let wrong = find_wrong_run(alloc, runs);
    assert!(rt; wrong.is_none(), "{what}: run {wrong:?}");
}

const OBJECTS: &[Run<'static>] = &[
    // nothing below `pairtree_root`
    Run(
        "pairtree_root/",
        Settings::Usual,
        Outcome::Most(
            15,
            0,
            r#"{"as":"end","done":0,"present":0,"skip":0}
"#,
        ),
    ),
    // one object of one file
    Run(
        "ab/c/obj/a.txt=abc",
        Settings::Usual,
        Outcome::Most(
            43,
            6,
            r#"{"as":"done","at":"ab/c/obj","bytes":3,"empty":0,"files":1,"id":"abc","to":"ba7/816/bf8/abc"}
{"as":"end","done":1,"present":0,"skip":0}
"#,
        ),
    ),
    // a prefix
    Run(
        "pairtree_prefix=a\n bc/abc/a.txt=abc",
        Settings::Usual,
        Outcome::Most(
            40,
            5,
            r#"{"as":"done","at":"bc/abc","bytes":3,"empty":0,"files":1,"id":"abc","to":"ba7/816/bf8/abc"}
{"as":"end","done":1,"present":0,"skip":0}
"#,
        ),
    ),
    // two sites that read one identifier
    Run(
        "^6/1b/c/one/a.txt=abc ab/c/two/b.txt=",
        Settings::Usual,
        Outcome::Most(
            53,
            8,
            r#"{"as":"done","at":"^6/1b/c/one","bytes":3,"empty":0,"files":1,"id":"abc","to":"ba7/816/bf8/abc"}
{"as":"present","at":"ab/c/two","id":"abc","to":"ba7/816/bf8/abc"}
{"as":"end","done":1,"present":1,"skip":0}
"#,
        ),
    ),
    // equal contents
    Run(
        "ab/cd/obj/a/x=abc ab/cd/obj/a.txt=abc ab/cd/obj/c=",
        Settings::Usual,
        Outcome::Most(
            54,
            11,
            r#"{"as":"done","at":"ab/cd/obj","bytes":6,"empty":0,"files":3,"id":"abcd","to":"88d/426/6fd/abcd"}
{"as":"end","done":1,"present":0,"skip":0}
"#,
        ),
    ),
];

const FURTHER_OBJECTS: &[Run<'static>] = &[
    // an empty directory in an object
    Run(
        "ab/c/obj/e/",
        Settings::Usual,
        Outcome::Most(
            38,
            4,
            r#"{"as":"done","at":"ab/c/obj","bytes":0,"empty":1,"files":0,"id":"abc","to":"ba7/816/bf8/abc"}
{"as":"end","done":1,"present":0,"skip":0}
"#,
        ),
    ),
    // an object that is empty
    Run(
        "ab/c/obj/",
        Settings::Usual,
        Outcome::Most(
            36,
            3,
            r#"{"as":"done","at":"ab/c/obj","bytes":0,"empty":1,"files":0,"id":"abc","to":"ba7/816/bf8/abc"}
{"as":"end","done":1,"present":0,"skip":0}
"#,
        ),
    ),
    // blocks that end at 8,191, 8,192 and 8,193 bytes
    Run(
        "ab/c/obj/f0= ab/c/obj/f1*8191 ab/c/obj/f2*8192 ab/c/obj/f3*8193",
        Settings::Usual,
        Outcome::Most(
            61,
            15,
            r#"{"as":"done","at":"ab/c/obj","bytes":24576,"empty":0,"files":4,"id":"abc","to":"ba7/816/bf8/abc"}
{"as":"end","done":1,"present":0,"skip":0}
"#,
        ),
    ),
    // a site below a site
    Run(
        "ab/cd/abcd/f=abc ab/cd/e/abcde/f=",
        Settings::Usual,
        Outcome::Most(
            66,
            8,
            r#"{"as":"done","at":"ab/cd/abcd","bytes":3,"empty":0,"files":1,"id":"abcd","to":"88d/426/6fd/abcd"}
{"as":"done","at":"ab/cd/e/abcde","bytes":0,"empty":0,"files":1,"id":"abcde","to":"36b/be5/0ed/abcde"}
{"as":"end","done":2,"present":0,"skip":0}
"#,
        ),
    ),
    // a line feed as an identifier
    Run(
        "^0/a/obj/a\x01b=",
        Settings::Usual,
        Outcome::Most(
            41,
            6,
            r#"{"as":"done","at":"^0/a/obj","bytes":0,"empty":0,"files":1,"id":"\n","to":"01b/a47/19c/%0a"}
{"as":"end","done":1,"present":0,"skip":0}
"#,
        ),
    ),
];

const PASSED_OVER: &[Run<'static>] = &[
    // two entries at a site
    Run(
        "ab/c/notes.txt=abc ab/c/obj/f=",
        Settings::Usual,
        Outcome::Most(
            23,
            4,
            r#"{"as":"skip","at":"ab/c","cause":"split"}
{"as":"end","done":0,"present":0,"skip":1}
"#,
        ),
    ),
    // one that is no directory
    Run(
        "ab/c/m?",
        Settings::Usual,
        Outcome::Most(
            22,
            3,
            r#"{"as":"skip","at":"ab/c","cause":"split"}
{"as":"end","done":0,"present":0,"skip":1}
"#,
        ),
    ),
    // one in an object
    Run(
        "ab/c/obj/m?",
        Settings::Usual,
        Outcome::Most(
            24,
            4,
            r#"{"as":"skip","at":"ab/c","cause":"other"}
{"as":"end","done":0,"present":0,"skip":1}
"#,
        ),
    ),
    // three causes
    Run(
        "a/bc/obj/ de/ readme=",
        Settings::Usual,
        Outcome::Most(
            23,
            4,
            r#"{"as":"skip","at":"","cause":"root"}
{"as":"skip","at":"a/bc","cause":"past"}
{"as":"skip","at":"de","cause":"empty"}
{"as":"end","done":0,"present":0,"skip":3}
"#,
        ),
    ),
    // names that have no reading
    Run(
        "^f/f/obj/x= a^/2/obj/x=",
        Settings::Usual,
        Outcome::Most(
            29,
            4,
            r#"{"as":"skip","at":"^f/f","cause":"utf8"}
{"as":"skip","at":"a^/2","cause":"name"}
{"as":"end","done":0,"present":0,"skip":2}
"#,
        ),
    ),
];

#[test]
fn each_store_has_its_lines_turns_and_records(rt: HostRuntime) {
    all_go(&rt, rt.alloc(), "objects", OBJECTS);
    all_go(&rt, rt.alloc(), "further objects", FURTHER_OBJECTS);
    all_go(&rt, rt.alloc(), "what is passed over", PASSED_OVER);
}

const GATHERED: &[Run<'static>] = &[
    // two entries at a site, gathered
    Run(
        "ab/c/notes.txt=abc ab/c/obj/f=",
        Settings::Gather,
        Outcome::Most(
            51,
            9,
            r#"{"as":"done","at":"ab/c","bytes":3,"empty":0,"files":2,"id":"abc","to":"ba7/816/bf8/abc"}
{"as":"end","done":1,"present":0,"skip":0}
"#,
        ),
    ),
    // a site below a gathered one
    Run(
        "ab/cd/x=abc ab/cd/ef/f.txt=",
        Settings::Gather,
        Outcome::Most(
            67,
            7,
            r#"{"as":"done","at":"ab/cd","bytes":3,"empty":0,"files":1,"id":"abcd","to":"88d/426/6fd/abcd"}
{"as":"done","at":"ab/cd/ef","bytes":0,"empty":0,"files":1,"id":"abcdef","to":"bef/57e/c7f/abcdef"}
{"as":"end","done":2,"present":0,"skip":0}
"#,
        ),
    ),
    // nothing that can be gathered
    Run(
        "ab/c/m?",
        Settings::Gather,
        Outcome::Most(
            24,
            3,
            r#"{"as":"skip","at":"ab/c","cause":"other"}
{"as":"end","done":0,"present":0,"skip":1}
"#,
        ),
    ),
    // nothing is gathered at the root
    Run(
        "readme=",
        Settings::Gather,
        Outcome::Most(
            16,
            1,
            r#"{"as":"skip","at":"","cause":"root"}
{"as":"end","done":0,"present":0,"skip":1}
"#,
        ),
    ),
    // one object, with nothing to gather
    Run(
        "ab/c/obj/a.txt=abc",
        Settings::Gather,
        Outcome::Most(
            43,
            6,
            r#"{"as":"done","at":"ab/c/obj","bytes":3,"empty":0,"files":1,"id":"abc","to":"ba7/816/bf8/abc"}
{"as":"end","done":1,"present":0,"skip":0}
"#,
        ),
    ),
];

#[test]
fn divided_sites_are_gathered(rt: HostRuntime) {
    all_go(&rt, rt.alloc(), "gathered", GATHERED);
}
