//! Runs over what stands in a destination already: what is looked at first, roots that are refused,
//! and second runs.
#![tactic(auto)]

use crate::expected_roots::{
    ABC, Base, CONFIG, DECLARATION, Files, LAYOUT, ONE, ROOT, STAGED, STORE, THREE_OF_THREE,
};
use crate::jobs::Settings;
use crate::steps::{Ends, Step, all_go};
use pt_move::{Fault, Report};

const PRESENT: Report = Report {
    done: 0,
    present: 1,
    skipped: 0,
    turns: 18,
};

const PRESENT_LINES: &str = r#"{"as":"present","at":"ab/c/obj","id":"abc","to":"ba7/816/bf8/abc"}
{"as":"end","done":0,"present":1,"skip":0}
"#;

const SECOND: &[Step] = &[
    Step::Store(STORE),
    Step::Carry(Settings::Usual),
    Step::Plant("ab/c/obj/"),
    Step::Run(Settings::Usual, Ends::With(PRESENT), PRESENT_LINES),
    Step::Is(Base::Object(ONE), ABC),
    Step::Plant("ab/c/obj/m?"),
    Step::Run(Settings::Usual, Ends::With(PRESENT), PRESENT_LINES),
    Step::Is(Base::Object(ONE), ABC),
];

const SPLIT: Report = Report {
    done: 0,
    present: 0,
    skipped: 1,
    turns: 23,
};

const GATHERED: Report = Report {
    done: 1,
    present: 0,
    skipped: 0,
    turns: 47,
};

const DIVIDED: &[Step] = &[
    Step::Store("ab/c/notes.txt=abc ab/c/obj/f="),
    Step::Run(
        Settings::Usual,
        Ends::With(SPLIT),
        r#"{"as":"skip","at":"ab/c","cause":"split"}
{"as":"end","done":0,"present":0,"skip":1}
"#,
    ),
    Step::Run(
        Settings::Gather,
        Ends::With(GATHERED),
        r#"{"as":"done","at":"ab/c","bytes":3,"empty":0,"files":2,"id":"abc","to":"ba7/816/bf8/abc"}
{"as":"end","done":1,"present":0,"skip":0}
"#,
    ),
    Step::Has("ocfl/ba7/816/bf8/abc/v1/content/notes.txt"),
    Step::Has("ocfl/ba7/816/bf8/abc/v1/content/obj/f"),
];

const START: &[Step] = &[
    Step::Plant("pairtree_root/"),
    Step::Plant("pairtree_prefix*1025"),
    Step::Add(&[("staging/", ""), ("ocfl", "")]),
    Step::Run(Settings::Usual, Ends::In(Fault::NotPairtree), ""),
    Step::Plant("pairtree_version0_1="),
    Step::Run(Settings::Usual, Ends::In(Fault::Prefix), ""),
    Step::Store("pairtree_prefix=a"),
    Step::Run(Settings::Usual, Ends::In(Fault::StagingLeft), ""),
    Step::Is(Base::Nothing, &[("staging/", ""), ("ocfl", "")]),
    Step::Take("staging"),
    Step::Run(Settings::Usual, Ends::In(Fault::Target), ""),
    Step::Is(Base::Nothing, &[("ocfl", "")]),
    Step::Store("pairtree_prefix/"),
    Step::Run(Settings::Usual, Ends::In(Fault::Prefix), ""),
];

// Roots in which a file is another one, so that a run can't use them.
const LINE_END: Files = &[
    (
        CONFIG,
        "{\"digestAlgorithm\":\"sha256\",\"extensionName\":\"0003-hash-and-id-n-tuple-storage-layout\",\"numberOfTuples\":3,\"tupleSize\":3}\n",
    ),
    LAYOUT,
    DECLARATION,
];

const FOUR_OF_TWO: Files = &[
    (
        CONFIG,
        "{\"digestAlgorithm\":\"sha256\",\"extensionName\":\"0003-hash-and-id-n-tuple-storage-layout\",\"numberOfTuples\":4,\"tupleSize\":2}",
    ),
    LAYOUT,
    DECLARATION,
];

const NO_FILE: Files = &[THREE_OF_THREE, ("ocfl/ocfl_layout.json/", ""), DECLARATION];

const OTHER_NAME: Files = &[THREE_OF_THREE, ("ocfl/other.json", ""), DECLARATION];

// Each is refused and left alone.
const OTHER_CONFIGS: &[Step] = &[
    Step::Store(STORE),
    Step::Add(LINE_END),
    Step::Run(Settings::Usual, Ends::In(Fault::Target), ""),
    Step::Is(Base::Nothing, LINE_END),
    Step::Take("ocfl"),
    Step::Add(FOUR_OF_TWO),
    Step::Run(Settings::Usual, Ends::In(Fault::Target), ""),
    Step::Is(Base::Nothing, FOUR_OF_TWO),
];

const OTHER_LAYOUTS: &[Step] = &[
    Step::Store(STORE),
    Step::Add(NO_FILE),
    Step::Run(Settings::Usual, Ends::In(Fault::Target), ""),
    Step::Is(Base::Nothing, NO_FILE),
    Step::Take("ocfl"),
    Step::Add(OTHER_NAME),
    Step::Run(Settings::Usual, Ends::In(Fault::Target), ""),
    Step::Is(Base::Nothing, OTHER_NAME),
];

const OTHER_TUPLES: &[Step] = &[
    Step::Store(STORE),
    Step::Add(ROOT),
    Step::Run(Settings::Tuples(2, 4), Ends::In(Fault::Target), ""),
    Step::Is(Base::Root, &[]),
    Step::Run(Settings::Tuples(0, 0), Ends::In(Fault::Target), ""),
    Step::Is(Base::Root, &[]),
];

const ON_THE_WAY: &[Step] = &[
    Step::Store(STORE),
    Step::Add(ROOT),
    Step::Add(&[("ocfl/ba7", "")]),
    Step::Run(Settings::Usual, Ends::In(Fault::Target), ""),
    Step::Is(
        Base::Object(STAGED),
        &[("ocfl/ba7", ""), ("staging/v1/content/a.txt", "abc")],
    ),
];

#[test]
fn runs_start_over_what_stands_already(rt: HostRuntime) {
    all_go(&rt, rt.alloc(), "a second run finds all present", SECOND);
    all_go(
        &rt,
        rt.alloc(),
        "a divided site is gathered by a later run",
        DIVIDED,
    );
    all_go(&rt, rt.alloc(), "the start is told in its order", START);
    all_go(
        &rt,
        rt.alloc(),
        "other configurations are refused",
        OTHER_CONFIGS,
    );
    all_go(&rt, rt.alloc(), "other layouts are refused", OTHER_LAYOUTS);
    all_go(
        &rt,
        rt.alloc(),
        "other tuples need another root",
        OTHER_TUPLES,
    );
    all_go(
        &rt,
        rt.alloc(),
        "a file on the way stays and staging holds the object",
        ON_THE_WAY,
    );
}
