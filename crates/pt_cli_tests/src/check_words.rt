//! Words of `check`: the check that is read of them, and words that are refused.
use crate::words::{Reading, Readings, Words, are_read, has_tuples, is_path};
use pt_cli::CheckArgs;
use pt_name::{Division, Share};

const WORDS: Words = &[
    "pairtree2ocfl",
    "check",
    "--ignore=.DS_Store",
    "--read",
    "--gather",
    "--dest=D",
    "--tuple-size=2",
    "--tuples=4",
    "--by-folders=2",
    "--share=2/3",
    "--only=a",
    "--only=ark:/13030/x",
    "-v",
    "--progress=always",
    "--interval=5",
    "--expect=L",
    "--event=E",
    "--list=I",
    "S",
];

pub(crate) fn is_reading(asked: &CheckArgs) -> bool {
    let options = &asked.options;
    options.reads
        && options.gather
        && options.ignored.names().len() == 1
        && is_path(&options.dest, Some("D"))
        && has_tuples(&options.layout, (2, 4))
        && is_of_second(&options.share)
        && asked.source.as_str() == "S"
        && is_path(&asked.list, Some("I"))
        && (options.feedback.verbose, options.feedback.quiet) == (true, false)
        && options.feedback.interval == 5
        && is_path(&options.feedback.expected, Some("L"))
        && is_path(&options.feedback.event, Some("E"))
}

// Whether a share is the second of three by folders two deep, and of that what begins with one of
// two texts.
fn is_of_second(share: &Share) -> bool {
    (share.index(), share.count()) == (2, 3)
        && share.division() == Division::Folders(2)
        && share.texts().len() == 2
        && share.list().is_none()
}

#[test]
fn the_words_of_check_are_read(rt: HostRuntime) {
    assert!(rt; are_read(rt.alloc(), WORDS, Reading::Check));
}

pub(crate) const CHECK: Words = &["pairtree2ocfl", "check"];

// What follows the word `check`.
pub(crate) const REFUSED_OF_CHECK: Readings = &[
    (&["--help"], 1),
    (&[], 2),
    (&["S", "D"], 2),
    (&["--sync", "S"], 2),
    (&["--ignore=a/b", "S"], 10),
    (&["--tuples=0", "--ignore=a/b", "S"], 7),
    (&["--dest=", "S"], 13),
    (&["--dest=", "--ignore=", "S"], 10),
    (&["--event=", "--dest=", "S"], 13),
    (&["--event=", "S"], 11),
    (&["--list=", "--event=", "S"], 11),
    (&["--list=", "S"], 12),
    (&["--list=a", "--list=b", "S"], 2),
    (&["--progress=on", "S"], 2),
];

// The same of shares, before the folder.
pub(crate) const SHARES_OF_CHECK: Readings = &[
    (&["--share=2/3"], 0),
    (&["--share=4096/4096", "--by-folders=600"], 0),
    (&["--only=a", "--only=b"], 0),
    (&["--only="], 2),
    (&["--share=4/3"], 9),
    (&["--share="], 9),
    (&["--share=1/2", "--share=2/2"], 2),
    (&["--by-folders=2"], 14),
    (&["--share=2/3", "--by-folders=0"], 14),
    (&["--share=2/3", "--by-folders=601"], 14),
    (&["--share=4/3", "--tuples=33"], 7),
    (&["--by-folders=0", "--share=4/3"], 9),
    (&["--ignore=", "--share=4/3"], 9),
    (&["--ignore=", "--by-folders=2"], 14),
    (&["--dest=", "--by-folders=2"], 14),
];
