//! Runs over what is at a limit or past it: of files, of bytes, of depth, of a layout and of names.
#![tactic(auto)]

use crate::expected_roots::{LINES, STORE};
use crate::jobs::Settings;
use crate::lines::{Outcome, Run, all_go, goes};
use std::alloc::{AllocError, Global};

const LIMIT: &str = r#"{"as":"skip","at":"ab/c","cause":"limit"}
{"as":"end","done":0,"present":0,"skip":1}
"#;

const OTHER: &str = r#"{"as":"skip","at":"ab/c","cause":"other"}
{"as":"end","done":0,"present":0,"skip":1}
"#;

const BOTH: &str = r#"{"as":"skip","at":"ab/cd","cause":"limit"}
{"as":"skip","at":"ab/cd/ef","cause":"limit"}
{"as":"end","done":0,"present":0,"skip":2}
"#;

// The lines of an object of one file of so many bytes that is carried.
const OF_8192: &str =
    r#"{"as":"done","at":"ab/c/obj","bytes":8192,"empty":0,"files":1,"id":"abc","to":"ba7/816/bf8/abc"}
{"as":"end","done":1,"present":0,"skip":0}
"#;

const OF_ONE: &str =
    r#"{"as":"done","at":"ab/c/obj","bytes":1,"empty":0,"files":1,"id":"abc","to":"ba7/816/bf8/abc"}
{"as":"end","done":1,"present":0,"skip":0}
"#;

// Stores with the limits of files, of the bytes of a path, of depth and of the bytes of a file, the
// turns and the lines.
const LIMITED: &[Run<'static>] = &[
    Run(
        "ab/c/obj/a= ab/c/obj/b= ab/c/obj/z?",
        Settings::Limits([1, 4_000, 600, 9_000]),
        Outcome::Turns(26, LIMIT),
    ),
    Run(
        "ab/c/obj/a= ab/c/obj/b= ab/c/obj/aa?",
        Settings::Limits([1, 4_000, 600, 9_000]),
        Outcome::Turns(26, OTHER),
    ),
    Run(
        "ab/cd/obj/f= ab/cd/ef/obj/f=",
        Settings::Limits([9, 4_000, 2, 9_000]),
        Outcome::Turns(24, BOTH),
    ),
    Run(
        "ab/c/obj/f*8193",
        Settings::Limits([9, 4_000, 600, 8_192]),
        Outcome::Turns(26, LIMIT),
    ),
    Run(
        "ab/c/obj/f*8192",
        Settings::Limits([9, 4_000, 600, 8_192]),
        Outcome::Turns(43, OF_8192),
    ),
    Run(
        "ab/c/obj/a/b=a",
        Settings::Limits([9, 3, 600, 9_000]),
        Outcome::Turns(46, OF_ONE),
    ),
    Run(
        "ab/c/obj/a/bc=a",
        Settings::Limits([9, 3, 600, 9_000]),
        Outcome::Turns(25, LIMIT),
    ),
    Run(
        "ab/c/obj/a*8193 ab/c/obj/z?",
        Settings::Limits([9, 4_000, 600, 8_192]),
        Outcome::Turns(26, LIMIT),
    ),
    Run(
        "ab/c/obj/a*8193 ab/c/obj/z?",
        Settings::Limits([9, 4_000, 600, 8_193]),
        Outcome::Turns(28, OTHER),
    ),
    Run(
        "ab/c/obj/a.txt=abc",
        Settings::Limits([1, 1, 1, 1]),
        Outcome::Turns(19, LIMIT),
    ),
    Run(
        "ab/c/obj/a.txt=abc",
        Settings::Limits([1, 5, 3, 3]),
        Outcome::Turns(43, LINES),
    ),
];

#[test]
fn what_is_past_a_limit_is_passed_over(rt: HostRuntime) {
    all_go(&rt, rt.alloc(), "limits", LIMITED);
}

// The digits and the number of tuples, the turns and the lines.
const TUPLES: &[Run<'static>] = &[
    Run(STORE, Settings::Tuples(3, 3), Outcome::Turns(43, LINES)),
    Run(
        STORE,
        Settings::Tuples(2, 4),
        Outcome::Turns(
            44,
            r#"{"as":"done","at":"ab/c/obj","bytes":3,"empty":0,"files":1,"id":"abc","to":"ba/78/16/bf/abc"}
{"as":"end","done":1,"present":0,"skip":0}
"#,
        ),
    ),
    Run(
        STORE,
        Settings::Tuples(0, 0),
        Outcome::Turns(
            40,
            r#"{"as":"done","at":"ab/c/obj","bytes":3,"empty":0,"files":1,"id":"abc","to":"abc"}
{"as":"end","done":1,"present":0,"skip":0}
"#,
        ),
    ),
];

#[test]
fn tuples_change_the_number_of_turns(rt: HostRuntime) {
    all_go(&rt, rt.alloc(), "tuples", TUPLES);
}

const RESERVED: &str = r#"{"as":"skip","at":"ex/te/ns/io/ns","cause":"reserved"}
{"as":"end","done":0,"present":0,"skip":1}
"#;

const FLAT: &[Run<'static>] = &[Run(
    "ex/te/ns/io/ns/obj/f=",
    Settings::Tuples(0, 0),
    Outcome::Turns(31, RESERVED),
)];

#[test]
fn without_tuples_one_place_is_reserved(rt: HostRuntime) {
    all_go(&rt, rt.alloc(), "without tuples", FLAT);
}

// An object that so many directories, one in the other, lead to.
fn entry_of_depth(alloc: Global, count: usize) -> Result<String, AllocError> {
    let mut entry = "ab/".repeat(alloc, count)?;
    entry.push_str("obj/f=")?;
    Ok(entry)
}

// Whether an object at this depth is passed over, or else carried, in so many turns.
fn goes_at_depth(alloc: Global, count: usize, turns: u64, is_passed: bool) -> bool {
    match entry_of_depth(alloc, count) {
        Ok(entry) => goes(
            alloc,
            &Run(
                entry.as_str(),
                Settings::Usual,
                Outcome::Limit(turns, is_passed),
            ),
        ),
        Err(_) => false,
    }
}

// The number of directories, one in the other, whose innermost holds an object; the turns, and
// whether it is passed over at the limit of depth.
const DEPTHS: &[(usize, u64, bool)] = &[
    (599, 1_832, false),
    (600, 1_817, true),
    (601, 1_816, true),
];

#[test]
fn an_object_may_be_six_hundred_deep(rt: HostRuntime) {
    for (count, turns, is_passed) in DEPTHS {
        assert!(rt;
            goes_at_depth(rt.alloc(), *count, *turns, *is_passed),
            "{count}"
        );
    }
}

// An identifier of 1,002 bytes, a name of 255 and a file of 100,000: its place was computed apart
// from this program.
const LONG_DIGEST: &str = "d026b9af8545d3b965fb83ab5f10d5072c902affb8dc2629ef670baf8c651d74";

const A_100: &[u8] = &[b'a'; 100];

const A_1001: &[u8] = &[b'a'; 1001];

const N_255: &[u8] = &[b'n'; 255];

fn letters(bytes: &[u8]) -> &str {
    str::from_utf8(bytes).unwrap_or("")
}

fn long_entries(alloc: Global) -> Result<String, AllocError> {
    let name = letters(N_255);
    format!(in alloc; "pairtree_prefix*1000 ab/obj/{name}*100000")
}

fn long_line(alloc: Global) -> Result<String, AllocError> {
    let id = letters(A_1001);
    let front = letters(A_100);
    format!(in alloc;
        "{{\"as\":\"done\",\"at\":\"ab/obj\",\"bytes\":100000,\"empty\":0,\"files\":1,\"id\":\"{id}b\",\"to\":\"d02/6b9/af8/{front}-{LONG_DIGEST}\"}}\n"
    )
}

fn goes_by_line(alloc: Global, line: &str) -> bool {
    match long_entries(alloc) {
        Ok(entries) => goes(
            alloc,
            &Run(entries.as_str(), Settings::Usual, Outcome::Carried(line)),
        ),
        Err(_) => false,
    }
}

fn goes_by_long_names(alloc: Global) -> bool {
    match long_line(alloc) {
        Ok(line) => goes_by_line(alloc, line.as_str()),
        Err(_) => false,
    }
}

#[test]
fn what_is_long_is_carried(rt: HostRuntime) {
    assert!(rt; goes_by_long_names(rt.alloc()));
}
