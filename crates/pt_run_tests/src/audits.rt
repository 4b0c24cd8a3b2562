//! Audits over trees in memory, by bytes and by lengths. Seen by lengths, a file of three bytes has
//! the text `3`, so trees of such texts stand for those that a machine shows.
#![tactic(auto)]

use crate::expected_roots::{DIGEST, Files, INVENTORY, ROOT, STORE};
use crate::jobs::{Settings, make_job};
use crate::spoiled_stores::ItFailed;
use pt_audit::{AuditTask, CompareBy, Counts};
use pt_extra::{AuditCounts, AuditEnd, ExtraDevices, ExtraNumbers, audit};
use pt_memory::texts::{add, store};
use pt_memory::{MemLog, MemSource, SpoiledSource};
use pt_move::{Fault, NoObserver};
use std::alloc::Global;

// An audit: the store's entries, what is compared, what stands in the root beside its own files,
// whether what the store lacks is told too, and what comes of it.
struct Row {
    entries: &'static str,
    by: CompareBy,
    files: &'static [Files],
    with_extras: bool,
    log: &'static str,
    counts: Counts,
    numbers: ExtraNumbers,
}

// The object of one file of three bytes, but for that file.
const OBJECT: Files = &[
    (
        "ocfl/ba7/816/bf8/abc/0=ocfl_object_1.1",
        "ocfl_object_1.1\n",
    ),
    ("ocfl/ba7/816/bf8/abc/inventory.json", INVENTORY),
    ("ocfl/ba7/816/bf8/abc/inventory.json.sha512", DIGEST),
    ("ocfl/ba7/816/bf8/abc/v1/inventory.json", INVENTORY),
    ("ocfl/ba7/816/bf8/abc/v1/inventory.json.sha512", DIGEST),
];

// Its inventory claims no digest of a file.
const CLAIMS_NONE: Files = &[
    (
        "ocfl/ba7/816/bf8/abc/0=ocfl_object_1.1",
        "ocfl_object_1.1\n",
    ),
    ("ocfl/ba7/816/bf8/abc/v1/content/a.txt", "3"),
    ("ocfl/ba7/816/bf8/abc/v1/inventory.json", "{}"),
];

const BYTES: Files = &[("ocfl/ba7/816/bf8/abc/v1/content/a.txt", "abc")];

const THREE: Files = &[("ocfl/ba7/816/bf8/abc/v1/content/a.txt", "3")];

const FOUR: Files = &[("ocfl/ba7/816/bf8/abc/v1/content/a.txt", "4")];

const STRAY: Files = &[("ocfl/a", "1")];

const ONE_STANDS: Counts = Counts {
    same: 1,
    absent: 0,
    differs: 0,
    skipped: 0,
};

const ONE_DIFFERS: Counts = Counts {
    same: 0,
    absent: 0,
    differs: 1,
    skipped: 0,
};

const NO_EXTRAS: ExtraNumbers = ExtraNumbers { extra: 0, stray: 0 };

// Each file has the bytes that the store's has.
const SAME: Row = Row {
    entries: STORE,
    by: CompareBy::Bytes,
    files: &[OBJECT, BYTES],
    with_extras: false,
    log: r#"{"as":"same","at":"ab/c/obj","bytes":3,"empty":0,"files":1,"id":"abc","to":"ba7/816/bf8/abc"}
{"absent":0,"as":"end","differs":0,"same":1,"skip":0}
"#,
    counts: ONE_STANDS,
    numbers: NO_EXTRAS,
};

// Each file has the length that the store's has; whatever its bytes, the texts are equal.
const ALIKE: Row = Row {
    entries: "ab/c/obj/a.txt=3",
    by: CompareBy::Lengths,
    files: &[OBJECT, THREE],
    with_extras: false,
    log: r#"{"as":"alike","at":"ab/c/obj","files":1,"id":"abc","to":"ba7/816/bf8/abc"}
{"absent":0,"alike":1,"as":"end","differs":0,"skip":0}
"#,
    counts: ONE_STANDS,
    numbers: NO_EXTRAS,
};

// By bytes the same trees differ: the inventory isn't one of a file with the bytes `3`.
const TEXTS_BY_BYTES: Row = Row {
    entries: "ab/c/obj/a.txt=3",
    by: CompareBy::Bytes,
    files: &[OBJECT, THREE],
    with_extras: false,
    log: r#"{"as":"differs","at":"ab/c/obj","id":"abc","path":"v1/inventory.json","to":"ba7/816/bf8/abc","why":"bytes"}
{"absent":0,"as":"end","differs":1,"same":0,"skip":0}
"#,
    counts: ONE_DIFFERS,
    numbers: NO_EXTRAS,
};

// The root's file is longer.
const LONGER: Row = Row {
    entries: "ab/c/obj/a.txt=3",
    by: CompareBy::Lengths,
    files: &[OBJECT, FOUR],
    with_extras: false,
    log: r#"{"as":"differs","at":"ab/c/obj","id":"abc","path":"v1/content/a.txt","to":"ba7/816/bf8/abc","why":"bytes"}
{"absent":0,"alike":0,"as":"end","differs":1,"skip":0}
"#,
    counts: ONE_DIFFERS,
    numbers: NO_EXTRAS,
};

// The store has a file more, for which the inventory claims nothing.
const UNCLAIMED_FILE: Row = Row {
    entries: "ab/c/obj/a.txt=3 ab/c/obj/b.txt=3",
    by: CompareBy::Lengths,
    files: &[OBJECT, THREE],
    with_extras: false,
    log: r#"{"as":"differs","at":"ab/c/obj","id":"abc","path":"v1/inventory.json","to":"ba7/816/bf8/abc","why":"bytes"}
{"absent":0,"alike":0,"as":"end","differs":1,"skip":0}
"#,
    counts: ONE_DIFFERS,
    numbers: NO_EXTRAS,
};

const UNCLAIMED: Row = Row {
    entries: "ab/c/obj/a.txt=3",
    by: CompareBy::Lengths,
    files: &[CLAIMS_NONE],
    with_extras: false,
    log: r#"{"as":"differs","at":"ab/c/obj","id":"abc","path":"v1/inventory.json","to":"ba7/816/bf8/abc","why":"bytes"}
{"absent":0,"alike":0,"as":"end","differs":1,"skip":0}
"#,
    counts: ONE_DIFFERS,
    numbers: NO_EXTRAS,
};

// Nothing stands at its place; another site has an entry beside its object, and is passed over.
const ABSENT: Row = Row {
    entries: "ab/c/obj/a.txt=3 ab/d/notes.txt=3 ab/d/obj/f=3",
    by: CompareBy::Lengths,
    files: &[],
    with_extras: false,
    log: r#"{"as":"absent","at":"ab/c/obj","id":"abc","to":"ba7/816/bf8/abc"}
{"as":"skip","at":"ab/d","cause":"split"}
{"absent":1,"alike":0,"as":"end","differs":0,"skip":1}
"#,
    counts: Counts {
        same: 0,
        absent: 1,
        differs: 0,
        skipped: 1,
    },
    numbers: NO_EXTRAS,
};

// What the store lacks is told as by bytes.
const WITH_EXTRAS: Row = Row {
    entries: "ab/c/obj/a.txt=3",
    by: CompareBy::Lengths,
    files: &[OBJECT, THREE, STRAY],
    with_extras: true,
    log: r#"{"as":"alike","at":"ab/c/obj","files":1,"id":"abc","to":"ba7/816/bf8/abc"}
{"as":"stray","to":"a"}
{"absent":0,"alike":1,"as":"end","differs":0,"extra":0,"skip":0,"stray":1}
"#,
    counts: ONE_STANDS,
    numbers: ExtraNumbers { extra: 0, stray: 1 },
};

const ROWS: [Row; 8] = [
    SAME,
    ALIKE,
    TEXTS_BY_BYTES,
    LONGER,
    UNCLAIMED_FILE,
    UNCLAIMED,
    ABSENT,
    WITH_EXTRAS,
];

// The root of a row.
fn root_of(alloc: Global, row: &Row) -> Option<MemSource> {
    let mut root = MemSource::new(alloc);
    add(alloc, &mut root, ROOT).ok()?;
    for files in row.files {
        add(alloc, &mut root, files).ok()?;
    }
    Some(root)
}

// What an audit comes to whose root stops after so many calls, and its log.
fn audited(
    alloc: Global,
    row: &Row,
    calls: Option<u64>,
) -> Option<(Result<AuditCounts, Fault>, MemLog)> {
    let mut root = root_of(alloc, row)?;
    root.fuse(calls);
    let devices = ExtraDevices {
        store: store(alloc, row.entries).ok()?,
        root: SpoiledSource::new(root, Vec::new(alloc)),
        log: MemLog::new(alloc),
        explains: ItFailed { further: &[] },
    };
    let task = AuditTask {
        job: make_job(alloc, Settings::Usual)?,
        by: row.by,
    };
    let AuditEnd { ran, devices, .. } = audit(alloc, devices, task, row.with_extras, &NoObserver);
    let ExtraDevices { log, .. } = devices;
    Some((ran, log))
}

fn holds(alloc: Global, row: &Row) -> bool {
    let told = AuditCounts {
        counts: row.counts,
        numbers: row.numbers,
    };
    match audited(alloc, row, None) {
        Some((ran, log)) => ran == Ok(told) && log.bytes() == row.log.as_bytes(),
        None => false,
    }
}

// Whether a root that fails at its first call ends the audit before its first line.
fn fails(alloc: Global, row: &Row) -> bool {
    match audited(alloc, row, Some(0)) {
        Some((ran, log)) => ran == Err(Fault::Dest) && log.bytes().is_empty(),
        None => false,
    }
}

#[test]
fn audits_tell_what_stands_by_bytes_and_by_lengths(rt: HostRuntime) {
    let wrong = ROWS.iter().position(|row| !holds(rt.alloc(), row));
    assert!(rt; wrong.is_none(), "row {wrong:?}");
}

#[test]
fn root_that_fails_ends_an_audit_by_lengths(rt: HostRuntime) {
    assert!(rt; fails(rt.alloc(), &ALIKE));
}
