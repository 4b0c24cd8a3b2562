//! Files are put onto the disk where that is asked, and nothing is asked of a folder after a sync
//! that failed.
use crate::counted_steps::{CountedStep, find_wrong_in_folder};
use pt_tree::TreeFault;

const NOT_SYNCED: &[CountedStep] = &[
    CountedStep::Create("staging", Ok(())),
    CountedStep::Append("bytes", Ok(())),
    CountedStep::Finish(Ok(())),
    CountedStep::Syncs(0),
    CountedStep::Rename("staging", "ocfl/abc", Ok(())),
    CountedStep::Syncs(0),
];

const SYNCED: &[CountedStep] = &[
    CountedStep::Create("staging", Ok(())),
    CountedStep::Append("bytes", Ok(())),
    CountedStep::Finish(Ok(())),
    CountedStep::Syncs(1),
    CountedStep::Rename("staging", "ocfl/abc", Ok(())),
    CountedStep::Syncs(2),
];

const LATE: &[CountedStep] = &[
    CountedStep::Create("a", Ok(())),
    CountedStep::Finish(Ok(())),
    CountedStep::SyncsFail(true),
    CountedStep::Rename("a", "b", Err(TreeFault::Device)),
    CountedStep::FailedAt("f/b/.."),
];

const STUCK: &[CountedStep] = &[
    CountedStep::SyncsFail(true),
    CountedStep::Create("a", Ok(())),
    CountedStep::Finish(Err(TreeFault::Device)),
    CountedStep::FailedAt("f/a"),
    CountedStep::SyncsFail(false),
    CountedStep::Changes(1),
    CountedStep::Mkdir("b", Err(TreeFault::Device)),
    CountedStep::Changes(1),
    CountedStep::NoPath,
];

// Whether files are put onto the disk, and the steps.
const ROWS: &[(&str, bool, &[CountedStep])] = &[
    (
        "files aren't synced where that isn't asked",
        false,
        NOT_SYNCED,
    ),
    ("files are synced where that is asked", true, SYNCED),
    ("errors that come late are told", true, LATE),
    ("nothing is asked after a late error", true, STUCK),
];

#[test]
fn files_are_put_onto_the_disk_where_that_is_asked(rt: HostRuntime) {
    for &(what, sync, steps) in ROWS {
        let wrong = find_wrong_in_folder(rt.alloc(), sync, usize::MAX, steps);
        assert!(rt; wrong == Ok(None), "{what}: step {wrong:?}");
    }
}
