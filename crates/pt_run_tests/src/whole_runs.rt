//! Runs into an empty destination, and all that each leaves.
#![tactic(auto)]

use crate::expected_roots::{ABC, Base, CONFIG, EQUAL, NO_FILES, ONE, QUOTED, STORE};
use crate::jobs::Settings;
use crate::steps::{Step, all_go};

const BLOCKS: &[Step] = &[
    Step::Store("ab/c/obj/f0= ab/c/obj/f1*8191 ab/c/obj/f2*8192 ab/c/obj/f3*8193"),
    Step::Carry(Settings::Usual),
    Step::Letters("ocfl/ba7/816/bf8/abc/v1/content/f0", 0),
    Step::Letters("ocfl/ba7/816/bf8/abc/v1/content/f1", 8_191),
    Step::Letters("ocfl/ba7/816/bf8/abc/v1/content/f2", 8_192),
    Step::Letters("ocfl/ba7/816/bf8/abc/v1/content/f3", 8_193),
];

// Tuples of so many digits, and so many of them, and what the root says of them.
const LAYOUTS: &[Step] = &[
    Step::Store(STORE),
    Step::Carry(Settings::Tuples(2, 4)),
    Step::EndsWith(CONFIG, "\"numberOfTuples\":4,\"tupleSize\":2}"),
    Step::Take("ocfl"),
    Step::Carry(Settings::Tuples(0, 0)),
    Step::EndsWith(CONFIG, "\"numberOfTuples\":0,\"tupleSize\":0}"),
];

// Runs into an empty destination, and all that each leaves.
const EMPTY_STORE: &[Step] = &[
    Step::Store("pairtree_root/"),
    Step::Carry(Settings::Usual),
    Step::Is(Base::Root, &[]),
];

const WHOLE_OBJECT: &[Step] = &[
    Step::Store(STORE),
    Step::Carry(Settings::Usual),
    Step::Is(Base::Object(ONE), ABC),
];

const EQUAL_CONTENTS: &[Step] = &[
    Step::Store("ab/cd/obj/a/x=abc ab/cd/obj/a.txt=abc ab/cd/obj/c="),
    Step::Carry(Settings::Usual),
    Step::Is(
        Base::Object(EQUAL),
        &[
            ("ocfl/88d/426/6fd/abcd/v1/content/a/x", "abc"),
            ("ocfl/88d/426/6fd/abcd/v1/content/c", ""),
        ],
    ),
];

const EMPTY_DIRECTORY: &[Step] = &[
    Step::Store("ab/c/obj/e/"),
    Step::Carry(Settings::Usual),
    Step::Is(Base::Object(NO_FILES), &[]),
];

const EMPTY_OBJECT: &[Step] = &[
    Step::Store("ab/c/obj/"),
    Step::Carry(Settings::Usual),
    Step::Is(Base::Object(NO_FILES), &[]),
];

const SHORT_DIGESTS: &[Step] = &[
    Step::Store("ab/c/obj/q\"x=abc"),
    Step::Carry(Settings::Sha256),
    Step::Is(
        Base::Object(QUOTED),
        &[("ocfl/ba7/816/bf8/abc/v1/content/q\"x", "abc")],
    ),
];

#[test]
fn a_run_leaves_its_objects_and_nothing_else(rt: HostRuntime) {
    all_go(
        &rt,
        rt.alloc(),
        "of an empty store, the root alone",
        EMPTY_STORE,
    );
    all_go(
        &rt,
        rt.alloc(),
        "an object, whole, and nothing beside it",
        WHOLE_OBJECT,
    );
    all_go(
        &rt,
        rt.alloc(),
        "equal contents, stored once",
        EQUAL_CONTENTS,
    );
    all_go(
        &rt,
        rt.alloc(),
        "no content of an object of an empty directory",
        EMPTY_DIRECTORY,
    );
    all_go(
        &rt,
        rt.alloc(),
        "no content of an empty object",
        EMPTY_OBJECT,
    );
    all_go(&rt, rt.alloc(), "digests of 256 bits", SHORT_DIGESTS);
    all_go(
        &rt,
        rt.alloc(),
        "files end before, at and after a block",
        BLOCKS,
    );
    all_go(&rt, rt.alloc(), "the root says its layout", LAYOUTS);
}
