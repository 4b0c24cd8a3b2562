//! Words of `migrate`: the migrations that are read of them, and words that are refused.
use crate::words::{Reading, Readings, Words, are_read, has_tuples, is_path};
use pt_cli::Migrate;
use pt_object::{Algorithm, Meta};

// Words of `migrate`, and what is read of them.
pub(crate) struct Row {
    what: &'static str,
    words: &'static [&'static str],
    created: &'static str,
    name: &'static str,
    address: Option<&'static str>,
    message: &'static str,
    algorithm: Algorithm,
    tuples: (u32, u32),
    gather: bool,
    folders: (&'static str, &'static str),
    event: Option<&'static str>,
    // Whether present lines and skip lines leave the status at 0.
    allowed: (bool, bool),
}

const MIGRATIONS: &[Row] = &[
    Row {
        what: "what is required",
        words: &[
            "pairtree2ocfl",
            "migrate",
            "--created",
            "2024-05-01T12:00:00Z",
            "--name",
            "Ada",
            "S",
            "D",
        ],
        created: "2024-05-01T12:00:00Z",
        name: "Ada",
        address: None,
        message: "Migrated from Pairtree",
        algorithm: Algorithm::Sha512,
        tuples: (3, 3),
        gather: false,
        folders: ("S", "D"),
        event: None,
        allowed: (false, false),
    },
    Row {
        what: "every option",
        words: &[
            "pairtree2ocfl",
            "migrate",
            "--tuples",
            "4",
            "/in",
            "--digest=sha256",
            "--message",
            "",
            "--gather",
            "--skips-ok",
            "--event",
            "ev.json",
            "--tuple-size=2",
            "--address",
            "mailto:ada@example.org",
            "--name",
            "Ada Lovelace",
            "--created",
            "2024-02-29T23:59:59+05:30",
            "--",
            "-out",
        ],
        created: "2024-02-29T23:59:59+05:30",
        name: "Ada Lovelace",
        address: Some("mailto:ada@example.org"),
        message: "",
        algorithm: Algorithm::Sha256,
        tuples: (2, 4),
        gather: true,
        folders: ("/in", "-out"),
        event: Some("ev.json"),
        allowed: (false, true),
    },
    Row {
        what: "an empty address, which is none",
        words: &[
            "pairtree2ocfl",
            "migrate",
            "--created=2024-05-01T12:00:00Z",
            "--name=Ada",
            "--address",
            "",
            "S",
            "D",
        ],
        created: "2024-05-01T12:00:00Z",
        name: "Ada",
        address: None,
        message: "Migrated from Pairtree",
        algorithm: Algorithm::Sha512,
        tuples: (3, 3),
        gather: false,
        folders: ("S", "D"),
        event: None,
        allowed: (false, false),
    },
];

pub(crate) fn is_migration(asked: &Migrate, row: &Row) -> bool {
    let job = &asked.options.job;
    is_meta(&job.meta, row)
        && has_tuples(&job.layout, row.tuples)
        && (job.algorithm, job.gather) == (row.algorithm, row.gather)
        && (asked.source.as_str(), asked.dest.as_str()) == row.folders
        && is_path(&asked.options.feedback.event, row.event)
        && (asked.options.allowed.present, asked.options.allowed.skips) == row.allowed
}

fn is_meta(meta: &Meta, row: &Row) -> bool {
    meta.created() == row.created
        && meta.name() == row.name
        && meta.address() == row.address
        && meta.message() == row.message
}

#[test]
fn the_words_of_migrate_are_read(rt: HostRuntime) {
    for row in MIGRATIONS {
        let what = row.what;
        assert!(rt;
            are_read(rt.alloc(), row.words, Reading::Migration(row)),
            "{what}"
        );
    }
}

pub(crate) const MIGRATE: Words = &["pairtree2ocfl", "migrate"];

const GOOD: &str = "--created=2024-05-01T12:00:00Z";

// What follows the word `migrate`.
pub(crate) const REFUSED_OF_MIGRATE: Readings = &[
    (&["--help"], 1),
    (&[], 2),
    (&[GOOD, "--name=Ada", "S", "D"], 0),
    (&[GOOD, "--tuples=3", "S", "D"], 2),
    (&["--name=Ada", "--tuples=3", "S", "D"], 2),
    (&[GOOD, "--name=Ada", "--gather", "S"], 2),
    (&[GOOD, "--name=", "--digest=md5", "S"], 2),
    (&["--created=today", "--name=Ada", "S", "D"], 3),
    (&["--created=", "--name=Ada", "S", "D"], 3),
    (&["--created=", "--name=", "S", "D"], 3),
    (&["--created=today", "--name=", "S", "D"], 3),
    (&[GOOD, "--name=", "S", "D"], 4),
];

pub(crate) const MOMENTS: Readings = &[
    (&["--created=2024-02-30T00:00:00Z"], 3),
    (&["--created=2024-05-01T12:00:00.5Z"], 3),
    (&["--created=2024-05-01T12:00:00z"], 3),
    (&["--created=2024-05-01T12:00:60Z"], 3),
    (&["--created=2024-05-01T12:00:00+24:00"], 3),
    (&["--created=2024-05-01T24:00:00Z"], 3),
    (&["--created=2024-05-01T12:00:00-00:00"], 0),
    (&["--created=0000-01-01T00:00:00Z"], 0),
];

// Three options before the folders.
pub(crate) const OPTIONS: Readings = &[
    (&[GOOD, "--name=Ada", "--digest=sha256"], 0),
    (&[GOOD, "--name=Ada", "--digest=md5"], 2),
    (&[GOOD, "--name=Ada", "--digest="], 2),
    (&[GOOD, "--name=Ada", "--tuples=x"], 2),
    (&[GOOD, "--name=Ada", "--tuples=4294967296"], 2),
    (&[GOOD, "--name=Ada", "--tuples="], 2),
    (&[GOOD, "--name=Ada", "--tuple-size=-1"], 2),
    (&["--created=today", "--name=", "--tuple-size=x"], 2),
    (&[GOOD, "--name=Ada", "--name=Eve"], 2),
    (&[GOOD, "--name=Ada", "--gather=true"], 2),
    (&[GOOD, "--name=Ada", "--tuples=4294967295"], 7),
    (&[GOOD, "--name=Ada", "--tuples=33"], 7),
    (&[GOOD, "--name=Ada", "--tuples=32"], 7),
    (&[GOOD, "--name=Ada", "--tuples=21"], 0),
    (&[GOOD, "--name=Ada", "--tuples=22"], 7),
    (&[GOOD, "--name=Ada", "--tuple-size=0"], 7),
    (&["--created=today", "--name=Ada", "--tuple-size=0"], 3),
    (&[GOOD, "--name=", "--tuple-size=0"], 4),
];

// The same of shares and of names that are left out.
pub(crate) const PARTS: Readings = &[
    (&[GOOD, "--name=Ada", "--share=2/3"], 0),
    (&[GOOD, "--name=Ada", "--share=4096/4096"], 0),
    (&[GOOD, "--name=Ada", "--share=4/3"], 9),
    (&[GOOD, "--name=Ada", "--share=0/3"], 9),
    (&[GOOD, "--name=Ada", "--share=1/4097"], 9),
    (&[GOOD, "--name=Ada", "--share=1"], 9),
    (&[GOOD, "--name=Ada", "--share="], 9),
    (&[GOOD, "--tuples=33", "--share=4/3", "--name=Ada"], 7),
    (&[GOOD, "--name=Ada", "--share=2/3", "--by-folders=1"], 0),
    (&[GOOD, "--name=Ada", "--share=2/3", "--by-folders=600"], 0),
    (&[GOOD, "--name=Ada", "--share=2/3", "--by-folders=0"], 14),
    (&[GOOD, "--name=Ada", "--share=2/3", "--by-folders=601"], 14),
    (&[GOOD, "--name=Ada", "--share=2/3", "--by-folders=two"], 14),
    (&[GOOD, "--name=Ada", "--share=2/3", "--by-folders="], 14),
    (&[GOOD, "--name=Ada", "--by-folders=2"], 14),
    (&[GOOD, "--name=Ada", "--share=4/3", "--by-folders=0"], 9),
    (&[GOOD, "--name=Ada", "--by-folders=2", "--ignore="], 14),
    (&[GOOD, "--name=Ada", "--only=ark:/13030/x"], 0),
    (&[GOOD, "--name=Ada", "--only="], 2),
    (&["--only=a", "--only=b", GOOD, "--name=Ada"], 0),
    (&[GOOD, "--name=Ada", "--list=ids", "--only=a"], 0),
    (&[GOOD, "--name=Ada", "--list"], 2),
    (&["--list=a", "--list=b", GOOD, "--name=Ada"], 2),
    (&[GOOD, "--name=Ada", "--ignore=.DS_Store"], 0),
    (&[GOOD, "--name=Ada", "--ignore=a/b"], 10),
    (&[GOOD, "--name=Ada", "--ignore=.."], 10),
    (&[GOOD, "--name=Ada", "--ignore="], 10),
    (&[GOOD, "--name=Ada", "--event="], 11),
    (&[GOOD, "--name=Ada", "--list="], 12),
    (&[GOOD, "--name=Ada", "--expect="], 0),
    (&["--list=", "--event=", GOOD, "--name=Ada"], 11),
    (&["--event=", "--ignore=", GOOD, "--name=Ada"], 10),
];
