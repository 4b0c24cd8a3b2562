//! Words of `audit`: the audit that is read of them, and words that are refused.
use crate::words::{Reading, Readings, Words, are_read, has_tuples, is_path};
use pt_cli::Audit;
use pt_object::Algorithm;

const WORDS: Words = &[
    "pairtree2ocfl",
    "audit",
    "--extra",
    "--quick",
    "--gather",
    "--digest=sha256",
    "--tuples=2",
    "--event=E",
    "S",
    "D",
];

pub(crate) fn is_gathering(asked: &Audit) -> bool {
    let job = &asked.options.job;
    has_tuples(&job.layout, (3, 2))
        && (job.algorithm, job.gather) == (Algorithm::Sha256, true)
        && (asked.source.as_str(), asked.dest.as_str()) == ("S", "D")
        && is_path(&asked.options.feedback.event, Some("E"))
        && (asked.options.extra, asked.options.skips_ok) == (true, false)
        && asked.options.quick
}

#[test]
fn the_words_of_audit_are_read(rt: HostRuntime) {
    assert!(rt; are_read(rt.alloc(), WORDS, Reading::Audit));
}

pub(crate) const AUDIT: Words = &["pairtree2ocfl", "audit"];

// What follows the word `audit`.
pub(crate) const REFUSED_OF_AUDIT: Readings = &[
    (&["--help"], 1),
    (&["S"], 2),
    (&["--event=", "--list=", "S", "D"], 11),
    (&["--list=", "S", "D"], 12),
];
