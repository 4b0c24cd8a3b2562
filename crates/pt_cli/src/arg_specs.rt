//! What each command takes: a row for each argument. `tools/fill.py` makes the man page and the
//! completions of these rows.

use crate::grammar::{ArgSpec, Form};
use crate::ids::{
    ADDRESS, BY_FOLDERS, CREATED, DEST, DIGEST, EVENT, EXPECT, EXTRA, GATHER, ID, IGNORE, INTERVAL,
    INTO, LIST, MESSAGE, NAME, ONLY, PREFIX, PRESENT_OK, PROGRESS, QUICK, QUIET, READ, REHEARSE,
    SHARE, SKIPS_OK, SOURCE, SYNC, TUPLE_SIZE, TUPLES, VERBOSE,
};

const TUPLE_SIZE_SPEC: ArgSpec = ArgSpec {
    id: TUPLE_SIZE,
    form: Form::Number("DIGITS", "3"),
    help: "Digits in the name of each folder above an object",
    more: None,
};

const TUPLES_SPEC: ArgSpec = ArgSpec {
    id: TUPLES,
    form: Form::Number("NUMBER", "3"),
    help: "Folders above each object",
    more: None,
};

const DIGEST_SPEC: ArgSpec = ArgSpec {
    id: DIGEST,
    form: Form::Word("ALGORITHM", &["sha512", "sha256"], "sha512"),
    help: "Digest algorithm",
    more: Some("The digest algorithm of the inventories"),
};

const BY_FOLDERS_SPEC: ArgSpec = ArgSpec {
    id: BY_FOLDERS,
    form: Form::Value("D"),
    help: "Share by the store's folders D deep, and list only the share's own",
    more: Some(
        "Share by the store's folders that lie D deep, and list of these only the share's own\n[default: share by the objects' identifiers, and list all]",
    ),
};

const ONLY_SPEC: ArgSpec = ArgSpec {
    id: ONLY,
    form: Form::RepeatedText("TEXT"),
    help: "Take only objects whose identifiers begin with TEXT; may be repeated",
    more: Some(
        "Take only objects whose identifiers begin with TEXT, the prefix included;\nmay be given again",
    ),
};

const LIST_SPEC: ArgSpec = ArgSpec {
    id: LIST,
    form: Form::Value("FILE"),
    help: "Take only objects whose identifiers stand in FILE, one a line",
    more: Some(
        "Take only objects whose identifiers stand in FILE, one a line;\nwith --only what either names",
    ),
};

const IGNORE_SPEC: ArgSpec = ArgSpec {
    id: IGNORE,
    form: Form::Repeated("NAME"),
    help: "Leave out what has this name, as .DS_Store; may be repeated",
    more: Some("Leave out every file and folder of this name, as .DS_Store; may be given again"),
};

const VERBOSE_SPEC: ArgSpec = ArgSpec {
    id: VERBOSE,
    form: Form::Letter('v'),
    help: "Tell the path and reason of a fault, or a summary at the end",
    more: Some(
        "Tell of a fault also the path and the reason, on one more line,\nand else a summary at the end",
    ),
};

const QUIET_SPEC: ArgSpec = ArgSpec {
    id: QUIET,
    form: Form::Letter('q'),
    help: "Show neither how far it is nor a summary at the end",
    more: None,
};

const INTERVAL_SPEC: ArgSpec = ArgSpec {
    id: INTERVAL,
    form: Form::Number("SECONDS", "10"),
    help: "Seconds between two lines of progress",
    more: Some("Seconds between two lines of progress, where they don't go to a terminal"),
};

const EVENT_SPEC: ArgSpec = ArgSpec {
    id: EVENT,
    form: Form::Value("FILE"),
    help: "Record in FILE, made new, what was done and how it ended",
    more: Some("Record in FILE, which is made new, what was done, when and how it ended, as JSON"),
};

const SOURCE_SPEC: ArgSpec = ArgSpec {
    id: SOURCE,
    form: Form::Place,
    help: "The folder that holds pairtree_root",
    more: None,
};

// What `names` takes.
pub(crate) const NAMES_SPECS: &[ArgSpec] = &[
    ArgSpec {
        id: PREFIX,
        form: Form::Value("TEXT"),
        help: "The prefix of the store, put before the identifier for its place",
        more: None,
    },
    TUPLE_SIZE_SPEC,
    TUPLES_SPEC,
    ArgSpec {
        id: ID,
        form: Form::Place,
        help: "The identifier, or - for those on standard input, one a line",
        more: None,
    },
];

// What `migrate` takes.
pub(crate) const MIGRATE_SPECS: &[ArgSpec] = &[
    ArgSpec {
        id: CREATED,
        form: Form::Needed("MOMENT"),
        help: "The moment that the inventories give, as 2024-05-01T12:00:00Z",
        more: None,
    },
    ArgSpec {
        id: NAME,
        form: Form::Needed("NAME"),
        help: "Who made the migration, as the inventories name them",
        more: None,
    },
    ArgSpec {
        id: ADDRESS,
        form: Form::Value("ADDRESS"),
        help: "Where to reach them, as mailto:ada@example.org [default: none]",
        more: None,
    },
    ArgSpec {
        id: MESSAGE,
        form: Form::Default("TEXT", "Migrated from Pairtree"),
        help: "A message for the inventories",
        more: Some("What the inventories say of the migration"),
    },
    DIGEST_SPEC,
    TUPLE_SIZE_SPEC,
    TUPLES_SPEC,
    ArgSpec {
        id: GATHER,
        form: Form::Flag,
        help: "Carry what lies directly in an identifier's folder too, as one object",
        more: Some(
            "Carry what lies directly in an identifier's folder too, as one object [default: skip it]",
        ),
    },
    ArgSpec {
        id: SHARE,
        form: Form::Value("K/N"),
        help: "Carry only the objects of share K of N, as 2/8 [default: all objects]",
        more: Some("Carry only the objects of share K of N shares, as 2/8 [default: all objects]"),
    },
    BY_FOLDERS_SPEC,
    ONLY_SPEC,
    LIST_SPEC,
    IGNORE_SPEC,
    ArgSpec {
        id: SYNC,
        form: Form::Flag,
        help: "Have each file, each object's folder and the log put onto the disk",
        more: None,
    },
    ArgSpec {
        id: REHEARSE,
        form: Form::Letter('n'),
        help: "Rehearse: read all, write the log, and make or change nothing in DEST",
        more: None,
    },
    ArgSpec {
        id: PRESENT_OK,
        form: Form::Flag,
        help: "Exit with 0 also where the log has present lines",
        more: Some("Exit with 0 also where the log has present lines, as a second run's has"),
    },
    ArgSpec {
        id: SKIPS_OK,
        form: Form::Flag,
        help: "Exit with 0 also where the log has skip lines",
        more: Some(
            "Exit with 0 also where the log has skip lines: what has no identifier has one,\nwhatever --only and --list choose",
        ),
    },
    VERBOSE_SPEC,
    QUIET_SPEC,
    ArgSpec {
        id: PROGRESS,
        form: Form::Word("WHEN", &["auto", "always", "never"], "auto"),
        help: "Show progress",
        more: Some("When to show on standard error how far the run is"),
    },
    INTERVAL_SPEC,
    ArgSpec {
        id: EXPECT,
        form: Form::Value("LOG"),
        help: "Show the share done and the time left too, by the log of a rehearsal",
        more: None,
    },
    EVENT_SPEC,
    SOURCE_SPEC,
    ArgSpec {
        id: DEST,
        form: Form::Place,
        help: "A folder that stands already; ocfl and staging in it are the program's",
        more: None,
    },
];

// What `audit` takes.
pub(crate) const AUDIT_SPECS: &[ArgSpec] = &[
    DIGEST_SPEC,
    TUPLE_SIZE_SPEC,
    TUPLES_SPEC,
    ArgSpec {
        id: GATHER,
        form: Form::Flag,
        help: "Audit what lies directly in an identifier's folder too, as one object",
        more: Some(
            "Audit what lies directly in an identifier's folder too, as one object [default: skip it]",
        ),
    },
    ArgSpec {
        id: SHARE,
        form: Form::Value("K/N"),
        help: "Audit only the objects of share K of N, as 2/8 [default: all objects]",
        more: Some("Audit only the objects of share K of N shares, as 2/8 [default: all objects]"),
    },
    BY_FOLDERS_SPEC,
    ONLY_SPEC,
    LIST_SPEC,
    IGNORE_SPEC,
    ArgSpec {
        id: SKIPS_OK,
        form: Form::Flag,
        help: "Exit with 0 also where the log has skip lines",
        more: None,
    },
    ArgSpec {
        id: EXTRA,
        form: Form::Flag,
        help: "Tell too of what stands in ocfl and the store lacks",
        more: Some(
            "Tell too of what stands in ocfl and the store lacks\n[default: hold the store's objects against ocfl]",
        ),
    },
    ArgSpec {
        id: QUICK,
        form: Form::Flag,
        help: "Compare only names and lengths, without reading files",
        more: Some(
            "Compare only names and lengths: no file of an object is read, and one that fits is alike\n[default: compare every byte]",
        ),
    },
    VERBOSE_SPEC,
    QUIET_SPEC,
    ArgSpec {
        id: PROGRESS,
        form: Form::Word("WHEN", &["auto", "always", "never"], "auto"),
        help: "Show progress",
        more: Some("When to show on standard error how far the audit is"),
    },
    INTERVAL_SPEC,
    ArgSpec {
        id: EXPECT,
        form: Form::Value("LOG"),
        help: "Show the share done and the time left too, by the log of a run",
        more: Some(
            "Show the share done and the time left too, by the log of a run, a rehearsal or an audit",
        ),
    },
    EVENT_SPEC,
    SOURCE_SPEC,
    ArgSpec {
        id: DEST,
        form: Form::Place,
        help: "The folder in which ocfl is",
        more: None,
    },
];

// What `check` takes.
pub(crate) const CHECK_SPECS: &[ArgSpec] = &[
    ArgSpec {
        id: READ,
        form: Form::Flag,
        help: "Read each file whole, and count its bytes [default: open it]",
        more: None,
    },
    ArgSpec {
        id: GATHER,
        form: Form::Flag,
        help: "Check for a run with this option, which carries more objects",
        more: Some("Check for a run that carries what lies directly in an identifier's folder too"),
    },
    ArgSpec {
        id: INTO,
        form: Form::Value("DEST"),
        help: "Tell what would be too long for a run into this folder",
        more: Some(
            "Tell what would be too long for a run into this folder, which need not be there",
        ),
    },
    TUPLE_SIZE_SPEC,
    TUPLES_SPEC,
    ArgSpec {
        id: SHARE,
        form: Form::Value("K/N"),
        help: "Check only the objects of share K of N, as 2/8 [default: all objects]",
        more: Some("Check only the objects of share K of N shares, as 2/8 [default: all objects]"),
    },
    BY_FOLDERS_SPEC,
    ONLY_SPEC,
    LIST_SPEC,
    IGNORE_SPEC,
    VERBOSE_SPEC,
    QUIET_SPEC,
    ArgSpec {
        id: PROGRESS,
        form: Form::Word("WHEN", &["auto", "always", "never"], "auto"),
        help: "Show progress",
        more: Some("When to show on standard error how far the check is"),
    },
    INTERVAL_SPEC,
    ArgSpec {
        id: EXPECT,
        form: Form::Value("LOG"),
        help: "Show the share done and the time left too, by the log of a check",
        more: None,
    },
    EVENT_SPEC,
    SOURCE_SPEC,
];
