//! A rehearsal changes nothing, and knows what it would have made.
use crate::counted_steps::{CountedStep, find_wrong_in_rehearsal};
use crate::counted_system::Counts;
use pt_tree::{Kind, TreeFault};

const WHOLE: &[CountedStep] = &[
    CountedStep::Mkdir("staging", Ok(())),
    CountedStep::Create("staging/a", Ok(())),
    CountedStep::Append("bytes", Ok(())),
    CountedStep::Finish(Ok(())),
    CountedStep::Kind("ocfl/abc", Ok(Some(Kind::File))),
    CountedStep::Rename("staging", "ocfl/abc", Ok(())),
    CountedStep::Kind("ocfl/abc", Ok(Some(Kind::Dir))),
    CountedStep::Kind("staging", Ok(Some(Kind::File))),
    CountedStep::Peek("staging/a", Ok(())),
    CountedStep::Holds(0),
    CountedStep::Changes(0),
    CountedStep::Syncs(0),
    CountedStep::Looks(3),
];

const REMEMBERED: &[CountedStep] = &[
    CountedStep::Mkdir("staging", Ok(())),
    CountedStep::Rename("staging", "ocfl", Ok(())),
    CountedStep::Mkdir("ocfl/abc", Ok(())),
    CountedStep::Kind("ocfl/abc", Ok(Some(Kind::Dir))),
    CountedStep::Mkdir("ocfl/abc/def", Ok(())),
    CountedStep::Kind("ocfl/abc/def", Ok(Some(Kind::Dir))),
    CountedStep::Kind("ocfl", Ok(Some(Kind::Dir))),
    CountedStep::Looks(1),
    CountedStep::Kind("staging", Ok(Some(Kind::File))),
    CountedStep::Looks(2),
];

const UNKNOWN: &[CountedStep] = &[
    CountedStep::Mkdir("staging", Ok(())),
    CountedStep::Mkdir("staging/a", Ok(())),
    CountedStep::Kind("staging/a", Err(TreeFault::Device)),
    CountedStep::Peek("staging/a", Err(TreeFault::Device)),
    CountedStep::Create("ocfl/abc", Err(TreeFault::Device)),
    CountedStep::Mkdir("other", Err(TreeFault::Device)),
    CountedStep::Rename("ocfl/abc", "staging/a", Err(TreeFault::Device)),
    CountedStep::Failures(5),
    CountedStep::NoPath,
];

const NO_FOLDER: &[CountedStep] = &[
    CountedStep::Kind("staging", Ok(None)),
    CountedStep::Mkdir("staging", Err(TreeFault::Device)),
    CountedStep::Failures(1),
    CountedStep::FailedAt("f/"),
];

// Whether the folder isn't there, and the steps.
const REHEARSALS: &[(&str, bool, &[CountedStep])] = &[
    ("a rehearsal changes nothing", false, WHOLE),
    (
        "it knows the folders that it would have made",
        false,
        REMEMBERED,
    ),
    ("it refuses what it doesn't know", false, UNKNOWN),
    ("it needs its folder", true, NO_FOLDER),
];

#[test]
fn a_rehearsal_changes_nothing_and_knows_what_it_would_have_made(rt: HostRuntime) {
    for &(what, no_look, steps) in REHEARSALS {
        let counts = Counts::new();
        counts.no_look.set(no_look);
        let wrong = find_wrong_in_rehearsal(&counts, rt.alloc(), steps);
        assert!(rt; wrong == Ok(None), "{what}: step {wrong:?}");
    }
}
