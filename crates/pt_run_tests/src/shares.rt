//! The lines of runs of each share of a store, by identifiers and by folders, and of the whole.
use crate::jobs::Settings;
use crate::lines::{Outcome, Run, all_go};

// With the limit of depth 3: objects of the shares 2 and 3 of 3, one of which is too deep, and what
// is passed over before an identifier is carried: a name that reads nothing, a shorty below a name
// of one byte, one that is too deep, a divided site.
const SHARED: &str = "ab/c/obj/a.txt=abc ab/cd/obj/b=z ab/cd/ef/obj/f= ab/cd/ef/gh/obj/f= \
    a/obj/f= a/bc/obj/f= de/x/note= de/x/obj/f= ^z/obj/f=";

// The lines of each share, and of the whole.
const SHARES: &[Run<'static>] = &[
    Run(
        SHARED,
        Settings::Share(1, 3),
        Outcome::Lines(
            r#"{"as":"skip","at":"^z","cause":"name"}
{"as":"skip","at":"a/bc","cause":"past"}
{"as":"skip","at":"ab/cd/ef/gh","cause":"limit"}
{"as":"skip","at":"de/x","cause":"split"}
{"as":"end","done":0,"present":0,"skip":4}
"#,
        ),
    ),
    Run(
        SHARED,
        Settings::Share(2, 3),
        Outcome::Lines(
            r#"{"as":"done","at":"ab/cd/obj","bytes":1,"empty":0,"files":1,"id":"abcd","to":"88d/426/6fd/abcd"}
{"as":"end","done":1,"present":0,"skip":0}
"#,
        ),
    ),
    Run(
        SHARED,
        Settings::Share(3, 3),
        Outcome::Lines(
            r#"{"as":"done","at":"a/obj","bytes":0,"empty":0,"files":1,"id":"a","to":"ca9/781/12c/a"}
{"as":"done","at":"ab/c/obj","bytes":3,"empty":0,"files":1,"id":"abc","to":"ba7/816/bf8/abc"}
{"as":"skip","at":"ab/cd/ef","cause":"limit"}
{"as":"end","done":2,"present":0,"skip":1}
"#,
        ),
    ),
    Run(
        SHARED,
        Settings::Share(1, 1),
        Outcome::Lines(
            r#"{"as":"skip","at":"^z","cause":"name"}
{"as":"done","at":"a/obj","bytes":0,"empty":0,"files":1,"id":"a","to":"ca9/781/12c/a"}
{"as":"skip","at":"a/bc","cause":"past"}
{"as":"done","at":"ab/c/obj","bytes":3,"empty":0,"files":1,"id":"abc","to":"ba7/816/bf8/abc"}
{"as":"done","at":"ab/cd/obj","bytes":1,"empty":0,"files":1,"id":"abcd","to":"88d/426/6fd/abcd"}
{"as":"skip","at":"ab/cd/ef","cause":"limit"}
{"as":"skip","at":"ab/cd/ef/gh","cause":"limit"}
{"as":"skip","at":"de/x","cause":"split"}
{"as":"end","done":3,"present":0,"skip":5}
"#,
        ),
    ),
];

// The lines of each share by folders three shorties deep, and by folders two deep.
const BY_FOLDERS: &[Run<'static>] = &[
    Run(
        SHARED,
        Settings::Folders(1, 2, 3),
        Outcome::Lines(
            r#"{"as":"skip","at":"a/bc","cause":"past"}
{"as":"skip","at":"ab/cd/ef","cause":"limit"}
{"as":"skip","at":"ab/cd/ef/gh","cause":"limit"}
{"as":"end","done":0,"present":0,"skip":3}
"#,
        ),
    ),
    Run(
        SHARED,
        Settings::Folders(2, 2, 3),
        Outcome::Lines(
            r#"{"as":"skip","at":"^z","cause":"name"}
{"as":"done","at":"a/obj","bytes":0,"empty":0,"files":1,"id":"a","to":"ca9/781/12c/a"}
{"as":"done","at":"ab/c/obj","bytes":3,"empty":0,"files":1,"id":"abc","to":"ba7/816/bf8/abc"}
{"as":"done","at":"ab/cd/obj","bytes":1,"empty":0,"files":1,"id":"abcd","to":"88d/426/6fd/abcd"}
{"as":"skip","at":"de/x","cause":"split"}
{"as":"end","done":3,"present":0,"skip":2}
"#,
        ),
    ),
    Run(
        SHARED,
        Settings::Folders(1, 4, 2),
        Outcome::Lines(
            r#"{"as":"end","done":0,"present":0,"skip":0}
"#,
        ),
    ),
    Run(
        SHARED,
        Settings::Folders(2, 4, 2),
        Outcome::Lines(
            r#"{"as":"skip","at":"a/bc","cause":"past"}
{"as":"end","done":0,"present":0,"skip":1}
"#,
        ),
    ),
    Run(
        SHARED,
        Settings::Folders(3, 4, 2),
        Outcome::Lines(
            r#"{"as":"skip","at":"^z","cause":"name"}
{"as":"skip","at":"de/x","cause":"split"}
{"as":"end","done":0,"present":0,"skip":2}
"#,
        ),
    ),
    Run(
        SHARED,
        Settings::Folders(4, 4, 2),
        Outcome::Lines(
            r#"{"as":"done","at":"a/obj","bytes":0,"empty":0,"files":1,"id":"a","to":"ca9/781/12c/a"}
{"as":"done","at":"ab/c/obj","bytes":3,"empty":0,"files":1,"id":"abc","to":"ba7/816/bf8/abc"}
{"as":"done","at":"ab/cd/obj","bytes":1,"empty":0,"files":1,"id":"abcd","to":"88d/426/6fd/abcd"}
{"as":"skip","at":"ab/cd/ef","cause":"limit"}
{"as":"skip","at":"ab/cd/ef/gh","cause":"limit"}
{"as":"end","done":3,"present":0,"skip":2}
"#,
        ),
    ),
];

#[test]
fn each_line_is_of_one_share(rt: HostRuntime) {
    all_go(&rt, rt.alloc(), "shares", SHARES);
    all_go(&rt, rt.alloc(), "shares by folders", BY_FOLDERS);
}
