//! What is planted beside the objects of a root, and what an audit tells of it; computed apart from
//! the program.

/// An object that no store here has, with what an audit reads of it; a file below a folder that no
/// object has, and an empty folder. No file is stray beside a folder and behind it, so that where
/// one can't be listed, and none after it, nothing else is stray from there on.
pub const PLANTED: &[(&str, &str)] = &[
    (
        "ocfl/a52/d15/9f2/abd/0=ocfl_object_1.1",
        "ocfl_object_1.1\n",
    ),
    ("ocfl/a52/d15/9f2/abd/inventory.json", "{\"id\":\"abd\"}"),
    ("ocfl/x/y/z", ""),
    ("ocfl/z/", ""),
];

/// Their lines, in the order of the walk.
pub const LINES: &str = r#"{"as":"extra","id":"abd","to":"a52/d15/9f2/abd"}
{"as":"stray","to":"x/y/z"}
{"as":"stray","to":"z"}
"#;

/// How the end line counts them.
pub const EXTRA: &str = "\"extra\":1";

/// The same of what is no part of the root or of an object.
pub const STRAY: &str = "\"stray\":2";
