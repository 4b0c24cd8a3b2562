//! Folders of the disk as source and destination: each test makes one below the folder for
//! temporary files, and removes it.
use crate::failing_system::SystemState;
use crate::steps::{
    DONE, DestStep, FAILS, Outcome, Row, SourceStep, is_part, piece, try_dest, try_source,
};
use pt_folder::System;
use pt_machine::HostMachine;
use pt_tree::{Kind, TreeFault};
use std::io::ErrorKind;
use std::os::unix::fs::symlink;
use std::test::Fail;
use std::{env, fs};

// What is made in a folder: a directory, a file of so many bytes, or a link to what the text says.
#[derive(Clone, Copy)]
enum Entry {
    Dir,
    File(usize),
    Link(&'static str),
}

type Entries = &'static [(&'static str, Entry)];

// A new folder with these entries.
fn make_folder(rt: &HostRuntime, folder: &str, entries: Entries) -> Result<(), Fail> {
    if fs::exists(rt, folder)? {
        fs::remove_dir_all(rt, folder)?;
    }
    fs::create_dir(rt, folder)?;
    for (rest, entry) in entries {
        make_entry(
            rt,
            format!(in rt.alloc(); "{folder}/{rest}")?.as_str(),
            *entry,
        )?;
    }
    Ok(())
}

fn make_entry(rt: &HostRuntime, at: &str, entry: Entry) -> Result<(), Fail> {
    match entry {
        Entry::Dir => fs::create_dir(rt, at)?,
        Entry::File(len) => fs::write(rt, at, piece(rt.alloc(), len)?.as_slice())?,
        Entry::Link(to) => symlink(rt, to, at)?,
    }
    Ok(())
}

// Files, each with how many bytes it holds then; none where it isn't there.
type Files = &'static [(&'static str, Option<usize>)];

// The first file that holds something else.
fn find_wrong_file(
    rt: &HostRuntime,
    folder: &str,
    files: Files,
) -> Result<Option<&'static str>, Fail> {
    for (file, len) in files {
        let path = format!(in rt.alloc(); "{folder}/{file}")?;
        if !is_left(rt, path.as_str(), *len)? {
            return Ok(Some(file));
        }
    }
    Ok(None)
}

// Whether a file holds so many of its bytes; or whether nothing is there.
fn is_left(rt: &HostRuntime, path: &str, len: Option<usize>) -> Result<bool, Fail> {
    let Some(len) = len else {
        return Ok(!fs::exists(rt, path)?);
    };
    match &fs::read(rt, path) {
        Ok(bytes) => Ok(is_part(bytes, 0, len)),
        Err(_) => Ok(false),
    }
}

// What steps go by that let no call fail and count none.
fn no_faults() -> SystemState {
    SystemState::new(0, ErrorKind::Other, b"")
}

// What goes otherwise of a destination over this folder.
fn try_dest_at(rt: &HostRuntime, folder: &str, rows: &[Row]) -> Result<Outcome, Fail> {
    try_dest(rt, &no_faults(), rt.alloc(), folder, rows)
}

// What is asked of a new folder with these entries: of a destination over it, then of a source over
// it, each with how many failures that makes, and then of its files.
struct FolderCase {
    name: &'static str,
    entries: Entries,
    failures: (u64, u64),
    rows: &'static [Row],
    steps: &'static [SourceStep],
    files: Files,
}

// What goes otherwise in a folder: of the destination, of the source, and the first file then.
type FolderOutcome = (Outcome, Outcome, Option<&'static str>);

// What goes otherwise in the folder, which is removed then.
fn try_folder(rt: &HostRuntime, case: &FolderCase) -> Result<FolderOutcome, Fail> {
    let folder = env::temp_dir(rt)?.join(rt.alloc(), case.name)?;
    try_folder_at(rt, folder.as_str(), case)
}

fn try_folder_at(rt: &HostRuntime, folder: &str, case: &FolderCase) -> Result<FolderOutcome, Fail> {
    make_folder(rt, folder, case.entries)?;
    let rows = try_dest_at(rt, folder, case.rows)?;
    let steps = try_source(rt, &no_faults(), rt.alloc(), folder, case.steps)?;
    let file = find_wrong_file(rt, folder, case.files)?;
    fs::remove_dir_all(rt, folder)?;
    if try_dest_at(rt, folder, GONE)? != (None, 0) {
        return Ok((rows, steps, Some("the folder that was removed")));
    }
    Ok((rows, steps, file))
}

// A folder that is removed.
const GONE: &[Row] = &[(DestStep::Kind(""), Ok(None))];

// Three files, a directory with a file, and links to a file, a directory and nothing.
const KINDS_OF_ENTRIES: Entries = &[
    ("dir", Entry::Dir),
    ("b", Entry::File(1)),
    ("\u{e9}", Entry::File(1)),
    ("Z", Entry::File(1)),
    ("dir/in", Entry::File(1)),
    ("to_file", Entry::Link("b")),
    ("to_dir", Entry::Link("dir")),
    (".to_nothing", Entry::Link("no")),
];

const LISTED: &[(&str, Kind)] = &[
    (".to_nothing", Kind::Other),
    ("Z", Kind::File),
    ("b", Kind::File),
    ("dir", Kind::Dir),
    ("to_dir", Kind::Other),
    ("to_file", Kind::Other),
    ("\u{e9}", Kind::File),
];

// What each path's list answers, and its kind, asked of a source and of a destination.
const KINDS: FolderCase = FolderCase {
    name: "pt_folder_kinds",
    entries: KINDS_OF_ENTRIES,
    failures: (0, 4),
    steps: &[
        SourceStep::List("", Ok(LISTED)),
        SourceStep::List("dir", Ok(&[("in", Kind::File)])),
        SourceStep::List("b", Err(TreeFault::Device)),
        SourceStep::List("no", Err(TreeFault::Device)),
        SourceStep::List("b/x", Err(TreeFault::Device)),
        SourceStep::List("to_dir", Err(TreeFault::Device)),
        SourceStep::Kind("", Ok(Some(Kind::Dir))),
        SourceStep::Kind("b", Ok(Some(Kind::File))),
        SourceStep::Kind("dir", Ok(Some(Kind::Dir))),
        SourceStep::Kind("dir/in", Ok(Some(Kind::File))),
        SourceStep::Kind("to_file", Ok(Some(Kind::Other))),
        SourceStep::Kind("to_dir", Ok(Some(Kind::Other))),
        SourceStep::Kind(".to_nothing", Ok(Some(Kind::Other))),
        SourceStep::Kind("no", Ok(None)),
        SourceStep::Kind("b/x", Ok(None)),
    ],
    rows: &[
        (DestStep::Kind(""), Ok(Some(Kind::Dir))),
        (DestStep::Kind("b"), Ok(Some(Kind::File))),
        (DestStep::Kind("dir"), Ok(Some(Kind::Dir))),
        (DestStep::Kind("dir/in"), Ok(Some(Kind::File))),
        (DestStep::Kind("to_file"), Ok(Some(Kind::Other))),
        (DestStep::Kind("to_dir"), Ok(Some(Kind::Other))),
        (DestStep::Kind(".to_nothing"), Ok(Some(Kind::Other))),
        (DestStep::Kind("no/x"), Ok(None)),
        (DestStep::Kind("b/x/y"), Ok(None)),
    ],
    files: &[],
};

const FILES: Entries = &[
    ("long", Entry::File(20_000)),
    ("full", Entry::File(8192)),
    ("short", Entry::File(3)),
];

// Files are peeked at, and read by blocks: a directory isn't opened, and the open file is read on.
const READING: FolderCase = FolderCase {
    name: "pt_folder_read",
    entries: FILES,
    failures: (1, 7),
    rows: &[
        (DestStep::Peek("long"), DONE),
        (DestStep::Holds(8192), DONE),
        (DestStep::Peek("no"), FAILS),
        (DestStep::Holds(0), DONE),
        (DestStep::Peek("full"), DONE),
        (DestStep::Holds(8192), DONE),
        (DestStep::Peek("short"), DONE),
        (DestStep::Holds(3), DONE),
    ],
    steps: &[
        SourceStep::NoBlock(TreeFault::Device),
        SourceStep::Open("long", Ok(())),
        SourceStep::Next(0, 8192),
        SourceStep::Open("no", Err(TreeFault::Device)),
        SourceStep::Next(8192, 8192),
        SourceStep::Open("no", Err(TreeFault::Device)),
        SourceStep::Next(16_384, 3616),
        SourceStep::Open("no", Err(TreeFault::Device)),
        SourceStep::Next(20_000, 0),
        SourceStep::Open("no", Err(TreeFault::Device)),
        SourceStep::Next(20_000, 0),
        SourceStep::Open("short", Ok(())),
        SourceStep::Next(0, 3),
        SourceStep::Open("full", Ok(())),
        SourceStep::Next(0, 8192),
        SourceStep::Open("no", Err(TreeFault::Device)),
        SourceStep::Next(8192, 0),
        SourceStep::Open("long", Ok(())),
        SourceStep::Next(0, 8192),
        SourceStep::Open("", Err(TreeFault::Device)),
        SourceStep::Next(8192, 8192),
    ],
    files: &[],
};

const LINK: Entries = &[("link", Entry::Link("nothing"))];

const WRITING: FolderCase = FolderCase {
    name: "pt_folder_write",
    entries: LINK,
    failures: (8, 0),
    rows: &[
        (DestStep::Append(1), FAILS),
        (DestStep::Finish, FAILS),
        (DestStep::Create("dir/f"), FAILS),
        (DestStep::Mkdir("dir"), DONE),
        (DestStep::Mkdir("dir"), FAILS),
        (DestStep::Create("dir/f"), DONE),
        (DestStep::Append(251), DONE),
        // what stands isn't opened, nor is a link to nothing, and the open file stays so
        (DestStep::Create("dir/f"), FAILS),
        (DestStep::Create("dir"), FAILS),
        (DestStep::Create("link"), FAILS),
        (DestStep::Append(3), DONE),
        (DestStep::Create("g"), DONE),
        (DestStep::Append(20_000), DONE),
        (DestStep::Finish, DONE),
        (DestStep::Finish, FAILS),
    ],
    steps: &[],
    files: &[("dir/f", Some(254)), ("g", Some(20_000)), ("nothing", None)],
};

const MOVING: FolderCase = FolderCase {
    name: "pt_folder_move",
    entries: &[],
    failures: (4, 0),
    rows: &[
        (DestStep::Mkdir("a"), DONE),
        (DestStep::Mkdir("ab"), DONE),
        (DestStep::Mkdir("ab/in"), DONE),
        (DestStep::Create("a/f"), DONE),
        (DestStep::Append(251), DONE),
        // neither a failed move nor that of a name that begins alike closes it
        (DestStep::Rename("a", "ab"), FAILS),
        (DestStep::Rename("no", "c"), FAILS),
        (DestStep::Rename("ab", "c"), DONE),
        (DestStep::Append(3), DONE),
        (DestStep::Rename("a", "d"), DONE),
        (DestStep::Append(1), FAILS),
        (DestStep::Create("c/g"), DONE),
        (DestStep::Rename("c/g", "c/h"), DONE),
        (DestStep::Append(1), FAILS),
    ],
    steps: &[],
    files: &[("d/f", Some(254)), ("c/h", Some(0)), ("a/f", None)],
};

#[test]
fn a_folder_of_the_disk_is_read_and_written(rt: HostRuntime) -> Result<(), Fail> {
    for case in &[&KINDS, &READING, &WRITING, &MOVING] {
        let (name, (refused, unread)) = (case.name, case.failures);
        let wrong = try_folder(&rt, case)?;
        assert!(rt;
            wrong == ((None, refused), (None, unread), None),
            "{name}: {wrong:?}"
        );
    }
    Ok(())
}

const LENGTHS: Entries = &[
    ("empty", Entry::File(0)),
    ("seven", Entry::File(7)),
    ("link", Entry::Link("seven")),
    ("to_nothing", Entry::Link("no")),
];

// The length that the machine tells of an entry of a folder.
fn length_at(rt: &HostRuntime, folder: &str, name: &str) -> Result<u64, Fail> {
    let path = format!(in rt.alloc(); "{folder}/{name}")?;
    Ok(HostMachine::new(rt).lstat_length(path.as_str())?)
}

fn tell_lengths(rt: &HostRuntime, folder: &str) -> Result<[u64; 4], Fail> {
    make_folder(rt, folder, LENGTHS)?;
    let lengths = [
        length_at(rt, folder, "empty")?,
        length_at(rt, folder, "seven")?,
        length_at(rt, folder, "link")?,
        length_at(rt, folder, "to_nothing")?,
    ];
    fs::remove_dir_all(rt, folder)?;
    Ok(lengths)
}

// A link isn't followed: its length is that of the text in it.
#[test]
fn the_lengths_of_files_are_told(rt: HostRuntime) -> Result<(), Fail> {
    let folder = env::temp_dir(&rt)?.join(rt.alloc(), "pt_folder_lengths")?;
    let lengths = tell_lengths(&rt, folder.as_str())?;
    assert!(rt; lengths == [0, 7, 5, 2], "{lengths:?}");
    Ok(())
}

const DEVICE: &[Row] = &[(DestStep::Kind("null"), Ok(Some(Kind::Other)))];

const REFUSED: &[Row] = &[
    (DestStep::Kind(""), FAILS),
    (DestStep::Kind("etc"), FAILS),
    (DestStep::Peek("etc"), FAILS),
    (DestStep::Mkdir("etc"), FAILS),
    (DestStep::Create("etc"), FAILS),
    (DestStep::Rename("etc", "c"), FAILS),
];

// Nothing that is listed or opened.
const UNREAD: &[SourceStep] = &[
    SourceStep::List("", Err(TreeFault::Device)),
    SourceStep::Open("", Err(TreeFault::Device)),
    SourceStep::List("etc", Err(TreeFault::Device)),
    SourceStep::Open("etc", Err(TreeFault::Device)),
];

#[test]
fn an_empty_word_fails_and_a_device_is_no_file(rt: HostRuntime) -> Result<(), Fail> {
    let unread = try_source(&rt, &no_faults(), rt.alloc(), "", UNREAD)?;
    let refused = try_dest_at(&rt, "", REFUSED)?;
    let device = try_dest_at(&rt, "/dev/", DEVICE)?;
    assert!(rt;
        unread == (None, 4) && refused == (None, 6) && device == (None, 0),
        "step and failures {unread:?}, {refused:?}, {device:?}"
    );
    Ok(())
}
