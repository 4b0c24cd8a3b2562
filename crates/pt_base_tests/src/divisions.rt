//! Shares of a store that is divided by its folders: which of them takes what stands at a path,
//! tells what is passed over there, and walks the folder. The expected numbers were computed apart
//! from the program, by Python's hashlib.
use crate::tables::{Holds, all_hold};
use pt_name::{Division, Share};
use pt_tree::NamePath;
use std::alloc::Global;

// The path of a site, how deep the folders are by which a store is divided, a share's number and
// how many there are, and what is asked of it.
struct Row(&'static str, u32, u32, u32, Asked);

enum Asked {
    // What stands there is of the share.
    Own,
    // It is of another, though the share walks the folder.
    Walked,
    // It is of another, which alone walks the folder.
    Elsewhere,
}

impl Holds for Row {
    fn holds(&self, alloc: Global) -> bool {
        let Row(site, depth, index, count, asked) = self;
        match (
            NamePath::of_text(alloc, site.as_bytes()),
            Share::of(*index, *count),
        ) {
            (Ok(site), Ok(share)) => answers(&share.by_folders(*depth), &site, asked),
            _ => false,
        }
    }
}

// Of an identifier that isn't asked for, what the share takes, tells and walks is as it should be.
fn answers(share: &Share, site: &NamePath, asked: &Asked) -> bool {
    let (own, walks) = match asked {
        Asked::Own => (true, true),
        Asked::Walked => (false, true),
        Asked::Elsewhere => (false, false),
    };
    share.takes(site, b"any") == own && share.tells_at(site) == own && share.walks(site) == walks
}

const ROWS: &[Row] = &[
    Row("ab", 1, 2, 2, Asked::Own),
    Row("ab", 1, 1, 2, Asked::Elsewhere),
    Row("ab", 1, 4025, 4096, Asked::Own),
    Row("ab", 1, 4026, 4096, Asked::Elsewhere),
    Row("ab/cd/e", 1, 3, 3, Asked::Own),
    Row("ab/cd/e", 1, 1, 3, Asked::Walked),
    Row("ab/cd", 2, 6, 7, Asked::Own),
    Row("ab/cd", 2, 7, 7, Asked::Elsewhere),
    Row("ab/cd/e", 2, 6, 7, Asked::Own),
    Row("ab/cd/e", 2, 2, 7, Asked::Walked),
    Row("ab/cd/e", 3, 17, 100, Asked::Own),
    Row("ab/cd/e", 3, 85, 100, Asked::Elsewhere),
    Row("ab/cd", 3, 85, 100, Asked::Own),
    Row("ab/cd", 3, 17, 100, Asked::Walked),
    Row("", 2, 4, 4, Asked::Own),
    Row("", 2, 3, 4, Asked::Walked),
    Row("a/bc", 600, 2, 4, Asked::Own),
    Row("de/x", 1, 2, 3, Asked::Own),
    Row("de/x", 2, 3, 3, Asked::Own),
    Row("ab/cd", 1, 1, 1, Asked::Own),
];

// Folders are told apart at their depth alone, and by identifiers at none.
fn divides_at_its_depth(share: Share) -> bool {
    let whole = !share.divides_at(0) && !share.divides_at(2);
    let by_folders = share.by_folders(2);
    whole
        && by_folders.division() == Division::Folders(2)
        && !by_folders.divides_at(1)
        && by_folders.divides_at(2)
        && !by_folders.divides_at(3)
}

#[test]
fn folders_are_of_the_share_that_their_way_gives(rt: HostRuntime) {
    all_hold(&rt, rt.alloc(), "shares by folders", ROWS);
    assert!(rt; divides_at_its_depth(Share::whole()));
}
