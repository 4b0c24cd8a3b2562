//! A path that is too long is refused before the system is asked.
use crate::counted_steps::{CountedStep, find_wrong_in_folder};
use pt_tree::TreeFault;

// Where a path, the folder's before it, has five bytes at most.
const LONG: &[CountedStep] = &[
    CountedStep::Mkdir("abc", Ok(())),
    CountedStep::Create("a/b", Ok(())),
    CountedStep::Changes(2),
    CountedStep::Mkdir("abcd", Err(TreeFault::Device)),
    CountedStep::Create("abcd", Err(TreeFault::Device)),
    CountedStep::Mkdir("\u{e9}cd", Err(TreeFault::Device)),
    CountedStep::Create("\u{e9}cd", Err(TreeFault::Device)),
    CountedStep::Changes(2),
    CountedStep::Failures(4),
    CountedStep::TooLong("f/\u{e9}cd"),
];

#[test]
fn longer_paths_are_not_made(rt: HostRuntime) {
    let wrong = find_wrong_in_folder(rt.alloc(), false, 5, LONG);
    assert!(rt; wrong == Ok(None), "step {wrong:?}");
}
