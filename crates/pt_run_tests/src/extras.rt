//! What a root has and its store lacks, over trees in memory.
#![tactic(auto)]

use crate::expected_roots::Files;
use crate::jobs::{Settings, make_job};
use crate::spoiled_stores::ItFailed;
use pt_extra::{ExtraDevices, ExtraNumbers, Extras};
use pt_memory::texts::{add, path, store};
use pt_memory::{MemLog, MemSource, SpoiledSource};
use pt_move::Fault;
use std::alloc::Global;

// A walk: the store's entries, what its identifiers begin with, what is asked for, what stands in
// the destination, where that can't be listed, with which further reasons, and the log. With
// further ones the entries are listed all the same.
struct Row {
    entries: &'static str,
    prefix: &'static str,
    settings: Settings,
    root: Files,
    spoiled: &'static [&'static str],
    further: &'static [&'static str],
    log: &'static str,
    numbers: ExtraNumbers,
}

const NONE: ExtraNumbers = ExtraNumbers { extra: 0, stray: 0 };

const ABC: (&str, &str) = (
    "ocfl/ba7/816/bf8/abc/0=ocfl_object_1.1",
    "ocfl_object_1.1\n",
);

const ABC_ID: (&str, &str) = ("ocfl/ba7/816/bf8/abc/inventory.json", r#"{"id":"abc"}"#);

// The store has the object, and the root has files of its own.
const SAME: Row = Row {
    entries: " ab/c/obj/f=abc",
    prefix: "",
    settings: Settings::Usual,
    root: &[
        ("ocfl/0=ocfl_1.1", ""),
        ("ocfl/ocfl_1.1.md", ""),
        ("ocfl/ocfl_extensions_1.0.md", ""),
        ("ocfl/ocfl_layout.json", ""),
        ("ocfl/extensions/a/b", ""),
        ABC,
        ABC_ID,
        ("ocfl/ba7/816/bf8/abc/more/f", ""),
        ("staging/f", ""),
    ],
    spoiled: &[],
    further: &[],
    log: "",
    numbers: NONE,
};

// At each level; a file has the name of the extensions' folder, and a folder that of a file of the
// root.
const STRAY: Row = Row {
    entries: " ab/c/obj/f=abc",
    prefix: "",
    settings: Settings::Usual,
    root: &[
        ("ocfl/0=ocfl_1.1/", ""),
        ("ocfl/a", ""),
        ("ocfl/b/", ""),
        ABC,
        ABC_ID,
        ("ocfl/ba7/816/bf8/f/g", ""),
        ("ocfl/ba7/816/ocfl_layout.json", ""),
        ("ocfl/extensions", ""),
    ],
    spoiled: &[],
    further: &[],
    log: r#"{"as":"stray","to":"0=ocfl_1.1"}
{"as":"stray","to":"a"}
{"as":"stray","to":"b"}
{"as":"stray","to":"ba7/816/bf8/f"}
{"as":"stray","to":"ba7/816/ocfl_layout.json"}
{"as":"stray","to":"extensions"}
"#,
    numbers: ExtraNumbers { extra: 0, stray: 6 },
};

// One isn't in the store; of the others one is at another place, one has no identifier, and one no
// inventory.
const EXTRA: Row = Row {
    entries: " ab/d/obj/f=abc",
    prefix: "",
    settings: Settings::Usual,
    root: &[
        ("ocfl/a/0=ocfl_object_1.0", ""),
        ("ocfl/a/inventory.json", r#"{"id":"abc"}"#),
        ABC,
        ABC_ID,
        ("ocfl/c/0=ocfl_object_1.1", ""),
        ("ocfl/c/inventory.json", r#"{"id":""}"#),
        ("ocfl/d/0=ocfl_object_1.1", ""),
    ],
    spoiled: &[],
    further: &[],
    log: r#"{"as":"stray","to":"a"}
{"as":"extra","id":"abc","to":"ba7/816/bf8/abc"}
{"as":"stray","to":"c"}
{"as":"stray","to":"d"}
"#,
    numbers: ExtraNumbers { extra: 1, stray: 3 },
};

// An identifier that doesn't begin as the store's do.
const PREFIX: Row = Row {
    entries: " ab/c/obj/f=abc",
    prefix: "ark:/",
    settings: Settings::Usual,
    root: &[ABC, ABC_ID],
    spoiled: &[],
    further: &[],
    log: "{\"as\":\"extra\",\"id\":\"abc\",\"to\":\"ba7/816/bf8/abc\"}\n",
    numbers: ExtraNumbers { extra: 1, stray: 0 },
};

// The site has an object only where what lies in it is gathered.
const SPLIT: Row = Row {
    entries: " ab/c/obj/f=abc ab/c/g=",
    prefix: "",
    settings: Settings::Usual,
    root: &[ABC, ABC_ID],
    spoiled: &[],
    further: &[],
    log: "{\"as\":\"extra\",\"id\":\"abc\",\"to\":\"ba7/816/bf8/abc\"}\n",
    numbers: ExtraNumbers { extra: 1, stray: 0 },
};

const GATHERED: Row = Row {
    entries: " ab/c/obj/f=abc ab/c/g=",
    prefix: "",
    settings: Settings::Gather,
    root: &[ABC, ABC_ID],
    spoiled: &[],
    further: &[],
    log: "",
    numbers: NONE,
};

// It is of the second share of two; the first tells what has no identifier.
const SHARED: Files = &[
    ("ocfl/a", ""),
    ABC,
    ABC_ID,
    ("ocfl/x/0=ocfl_object_1.1", ""),
    ("ocfl/x/inventory.json", r#"{"id":"abc"}"#),
];

const OTHER_SHARE: Row = Row {
    entries: "",
    prefix: "",
    settings: Settings::Share(1, 2),
    root: SHARED,
    spoiled: &[],
    further: &[],
    log: "{\"as\":\"stray\",\"to\":\"a\"}\n",
    numbers: ExtraNumbers { extra: 0, stray: 1 },
};

const OWN_SHARE: Row = Row {
    entries: "",
    prefix: "",
    settings: Settings::Share(2, 2),
    root: SHARED,
    spoiled: &[],
    further: &[],
    log: r#"{"as":"extra","id":"abc","to":"ba7/816/bf8/abc"}
{"as":"stray","to":"x"}
"#,
    numbers: ExtraNumbers { extra: 1, stray: 1 },
};

// At each level; one holds an object, and one is an object.
const UNLISTED: Files = &[
    ("ocfl/a/f", ""),
    ABC,
    ABC_ID,
    ("ocfl/ba7/817/x/f", ""),
    ("ocfl/z", ""),
];

const SPOILED: Row = Row {
    entries: "",
    prefix: "",
    settings: Settings::Usual,
    root: UNLISTED,
    spoiled: &["ocfl/a", "ocfl/ba7/816", "ocfl/none", "ocfl/z"],
    further: &[],
    log: r#"{"as":"stray","reason":"it failed","to":"a"}
{"as":"stray","reason":"it failed","to":"ba7/816"}
{"as":"stray","to":"ba7/817/x/f"}
{"as":"stray","to":"z"}
"#,
    numbers: ExtraNumbers { extra: 0, stray: 4 },
};

const SPOILED_TOP: Row = Row {
    entries: "",
    prefix: "",
    settings: Settings::Usual,
    root: UNLISTED,
    spoiled: &["ocfl"],
    further: &[],
    log: "{\"as\":\"stray\",\"reason\":\"it failed\",\"to\":\"\"}\n",
    numbers: ExtraNumbers { extra: 0, stray: 1 },
};

// Where entries are listed all the same, what is found of them follows.
const IN_PART: Row = Row {
    entries: "",
    prefix: "",
    settings: Settings::Usual,
    root: &[
        ABC,
        ABC_ID,
        ("ocfl/ba7/817/", ""),
        ("ocfl/c/d/e/f/g", ""),
        ("ocfl/z", ""),
    ],
    spoiled: &["ocfl/ba7/816/bf8/abc", "ocfl/ba7/817", "ocfl/c/d/e/f"],
    further: &["again"],
    log: r#"{"as":"stray","reason":"it failed","to":"ba7/816/bf8/abc"}
{"as":"stray","reason":"again","to":"ba7/816/bf8/abc"}
{"as":"extra","id":"abc","to":"ba7/816/bf8/abc"}
{"as":"stray","reason":"it failed","to":"ba7/817"}
{"as":"stray","reason":"again","to":"ba7/817"}
{"as":"stray","reason":"it failed","to":"c/d/e/f"}
{"as":"stray","reason":"again","to":"c/d/e/f"}
{"as":"stray","to":"z"}
"#,
    numbers: ExtraNumbers { extra: 1, stray: 7 },
};

// Each share tells what it couldn't list: below that may be objects of any.
const FIRST_SPOILED: Row = Row {
    entries: "",
    prefix: "",
    settings: Settings::Share(1, 2),
    root: SHARED,
    spoiled: &["ocfl", "ocfl/x"],
    further: &["again"],
    log: r#"{"as":"stray","reason":"it failed","to":""}
{"as":"stray","reason":"again","to":""}
{"as":"stray","to":"a"}
{"as":"stray","reason":"it failed","to":"x"}
{"as":"stray","reason":"again","to":"x"}
"#,
    numbers: ExtraNumbers { extra: 0, stray: 5 },
};

const SECOND_SPOILED: Row = Row {
    entries: "",
    prefix: "",
    settings: Settings::Share(2, 2),
    root: SHARED,
    spoiled: &["ocfl", "ocfl/x"],
    further: &["again"],
    log: r#"{"as":"stray","reason":"it failed","to":""}
{"as":"stray","reason":"again","to":""}
{"as":"extra","id":"abc","to":"ba7/816/bf8/abc"}
{"as":"stray","reason":"it failed","to":"x"}
{"as":"stray","reason":"again","to":"x"}
{"as":"stray","to":"x"}
"#,
    numbers: ExtraNumbers { extra: 1, stray: 5 },
};

// By folders what stands at or below an entry of the root is of the share that its name gives: `a`
// of the second of two, `ba7` and `x` of the first. The other doesn't list them.
const OWN_ENTRIES: Row = Row {
    entries: "",
    prefix: "",
    settings: Settings::Folders(1, 2, 3),
    root: SHARED,
    spoiled: &["ocfl", "ocfl/x"],
    further: &["again"],
    log: r#"{"as":"stray","reason":"it failed","to":""}
{"as":"stray","reason":"again","to":""}
{"as":"extra","id":"abc","to":"ba7/816/bf8/abc"}
{"as":"stray","reason":"it failed","to":"x"}
{"as":"stray","reason":"again","to":"x"}
{"as":"stray","to":"x"}
"#,
    numbers: ExtraNumbers { extra: 1, stray: 5 },
};

const OTHER_ENTRIES: Row = Row {
    entries: "",
    prefix: "",
    settings: Settings::Folders(2, 2, 1),
    root: SHARED,
    spoiled: &["ocfl", "ocfl/ba7", "ocfl/x"],
    further: &["again"],
    log: r#"{"as":"stray","reason":"it failed","to":""}
{"as":"stray","reason":"again","to":""}
{"as":"stray","to":"a"}
"#,
    numbers: ExtraNumbers { extra: 0, stray: 3 },
};

// An empty root is of the share of the empty text, the second of two.
const OWN_EMPTY: Row = Row {
    entries: "",
    prefix: "",
    settings: Settings::Folders(2, 2, 1),
    root: &[("ocfl/", "")],
    spoiled: &[],
    further: &[],
    log: "{\"as\":\"stray\",\"to\":\"\"}\n",
    numbers: ExtraNumbers { extra: 0, stray: 1 },
};

const OTHER_EMPTY: Row = Row {
    entries: "",
    prefix: "",
    settings: Settings::Folders(1, 2, 1),
    root: &[("ocfl/", "")],
    spoiled: &[],
    further: &[],
    log: "",
    numbers: NONE,
};

const ROWS: [Row; 17] = [
    SAME,
    STRAY,
    EXTRA,
    PREFIX,
    SPLIT,
    GATHERED,
    OTHER_SHARE,
    OWN_SHARE,
    SPOILED,
    SPOILED_TOP,
    IN_PART,
    FIRST_SPOILED,
    SECOND_SPOILED,
    OWN_ENTRIES,
    OTHER_ENTRIES,
    OWN_EMPTY,
    OTHER_EMPTY,
];

// What a walk comes to, and its log.
fn walked(
    alloc: Global,
    row: &Row,
    calls: Option<u64>,
) -> Option<(Result<ExtraNumbers, Fault>, MemLog)> {
    let Ok(mut store) = store(alloc, row.entries) else {
        return None;
    };
    store.fuse(calls);
    let mut root = MemSource::new(alloc);
    let planted = add(alloc, &mut root, row.root);
    let job = make_job(alloc, row.settings)?;
    let Ok(prefix) = String::from_str(alloc, row.prefix) else {
        return None;
    };
    let mut spoiled = Vec::new(alloc);
    for at in row.spoiled {
        let Ok(at) = path(alloc, at) else {
            return None;
        };
        let Ok(()) = spoiled.push(at) else {
            return None;
        };
    }
    let devices = ExtraDevices {
        store,
        root: SpoiledSource::new(root, spoiled),
        log: MemLog::new(alloc),
        explains: ItFailed {
            further: row.further,
        },
    };
    let mut walk = Extras::new(alloc, devices, job, prefix);
    let ran = walk.run();
    let log = walk.into_devices().log;
    if planted.is_ok() {
        Some((ran, log))
    } else {
        None
    }
}

fn holds(alloc: Global, row: &Row) -> bool {
    match walked(alloc, row, None) {
        Some((ran, log)) => ran == Ok(row.numbers) && log.bytes() == row.log.as_bytes(),
        None => false,
    }
}

// Whether a store that fails at its first call ends the walk over this.
fn fails(alloc: Global, row: &Row) -> bool {
    match walked(alloc, row, Some(0)) {
        Some((ran, log)) => ran == Err(Fault::Source) && log.bytes().is_empty(),
        None => false,
    }
}

#[test]
fn what_the_store_lacks_is_told(rt: HostRuntime) {
    let wrong = ROWS.iter().position(|row| !holds(rt.alloc(), row));
    assert!(rt; wrong.is_none(), "row {wrong:?}");
}

#[test]
fn store_that_fails_ends_the_walk(rt: HostRuntime) {
    assert!(rt; fails(rt.alloc(), &SAME));
}
