//! The lines of checks of shares of a store, by identifiers and by folders, and of chosen objects;
//! and how often each calls its source.
#![tactic(auto)]

use crate::spoiled_stores::{ItFailed, spoiled_store};
use pt_check::{Check, CheckDevices, Wants};
use pt_memory::{MemLog, SpoiledSource};
use pt_name::{IdentifierList, Layout, Share};
use pt_tree::{MemoryFault, NamePath, Source};
use pt_walk::Form;
use std::alloc::Global;

// What a check goes over: the share of a number, of so many; the same, divided by folders so deep;
// the objects whose identifiers begin with a text, or stand in a list.
#[derive(Clone, Copy)]
enum Part {
    Share(u32, u32),
    Folders(u32, u32, u32),
    Only(&'static str),
    Listed(&'static [&'static str]),
}

// A check: the store's entries, and where nothing can be read; what of it is checked; the form of
// the run that it is made for; how many calls of the source it makes; and the log.
struct Row {
    entries: &'static str,
    spoiled: &'static [&'static str],
    part: Part,
    form: Form,
    calls: u64,
    log: &'static str,
}

// Objects of the shares 2 (`abcd`, `abcdefgh`) and 3 of 3, one of which has a link, and what has no
// identifier: a name that reads nothing, a shorty below a name of one byte, a divided site.
const SHARED: &str = "ab/c/obj/a.txt=abc ab/cd/obj/b=z ab/cd/ef/obj/l? ab/cd/ef/gh/obj/f= a/obj/f= \
    a/bc/obj/.DS_Store= de/x/note= de/x/obj/f= ^z/obj/f=";

// What lies beside `de` is an object of the second share of two, and so is that of `gh`; `de` has
// one of the first.
const GATHERED: &str = "ab/cd/a=abc ab/cd/de/obj/f=defg ab/cd/far/g=ghi gh/obj/f=k gh/xy/";

// A site that can't be listed, of the object `abc`, and an object that can't.
const UNREAD: &str = "ab/c/obj/f=abc ab/cd/obj/g=z";

const SPOILED: &[&str] = &["pairtree_root/ab/c", "pairtree_root/ab/cd/obj"];

const ROWS: &[Row] = &[
    Row {
        entries: SHARED,
        spoiled: &[],
        part: Part::Share(1, 3),
        form: Form::Plain,
        calls: 23,
        log: r#"{"as":"name","path":"pairtree_root/^z"}
{"as":"past","path":"pairtree_root/a/bc"}
{"as":"desktop","path":"pairtree_root/a/bc/obj/.DS_Store"}
{"as":"split","path":"pairtree_root/de/x"}
{"as":"end","bytes":0,"desktop":1,"files":4,"files_of_00":4,"folders":13,"largest":0,"longest":32,"name":1,"objects":1,"objects_at_01":1,"past":1,"renamed":1,"sites":5,"sites_at_00":1,"sites_at_01":3,"sites_at_02":1,"split":1,"told":4}
"#,
    },
    Row {
        entries: SHARED,
        spoiled: &[],
        part: Part::Share(2, 3),
        form: Form::Plain,
        calls: 18,
        log: r#"{"as":"end","bytes":1,"bytes_of_01":1,"files":2,"files_of_00":1,"files_of_01":1,"folders":2,"largest":1,"longest":31,"objects":2,"objects_at_02":1,"objects_at_04":1,"renamed":2,"sites":2,"sites_at_02":1,"sites_at_04":1,"told":0}
"#,
    },
    Row {
        entries: SHARED,
        spoiled: &[],
        part: Part::Share(3, 3),
        form: Form::Plain,
        calls: 19,
        log: r#"{"as":"other","path":"pairtree_root/ab/cd/ef/obj/l"}
{"as":"end","bytes":3,"bytes_of_01":3,"files":2,"files_of_00":1,"files_of_01":1,"folders":3,"largest":3,"longest":28,"objects":3,"objects_at_01":1,"objects_at_02":1,"objects_at_03":1,"other":1,"renamed":3,"sites":3,"sites_at_01":1,"sites_at_02":1,"sites_at_03":1,"told":1}
"#,
    },
    Row {
        entries: SHARED,
        spoiled: &[],
        part: Part::Folders(1, 4, 2),
        form: Form::Plain,
        calls: 6,
        log: r#"{"as":"end","bytes":0,"files":0,"folders":0,"largest":0,"longest":0,"objects":0,"sites":0,"told":0}
"#,
    },
    Row {
        entries: SHARED,
        spoiled: &[],
        part: Part::Folders(2, 4, 2),
        form: Form::Plain,
        calls: 10,
        log: r#"{"as":"past","path":"pairtree_root/a/bc"}
{"as":"desktop","path":"pairtree_root/a/bc/obj/.DS_Store"}
{"as":"end","bytes":0,"desktop":1,"files":1,"files_of_00":1,"folders":2,"largest":0,"longest":32,"objects":0,"past":1,"sites":0,"told":2}
"#,
    },
    Row {
        entries: SHARED,
        spoiled: &[],
        part: Part::Folders(3, 4, 2),
        form: Form::Plain,
        calls: 15,
        log: r#"{"as":"name","path":"pairtree_root/^z"}
{"as":"split","path":"pairtree_root/de/x"}
{"as":"end","bytes":0,"files":3,"files_of_00":3,"folders":5,"largest":0,"longest":24,"name":1,"objects":1,"objects_at_01":1,"renamed":1,"sites":3,"sites_at_01":2,"sites_at_02":1,"split":1,"told":2}
"#,
    },
    Row {
        entries: SHARED,
        spoiled: &[],
        part: Part::Folders(4, 4, 2),
        form: Form::Plain,
        calls: 25,
        log: r#"{"as":"other","path":"pairtree_root/ab/cd/ef/obj/l"}
{"as":"end","bytes":4,"bytes_of_01":4,"files":4,"files_of_00":2,"files_of_01":2,"folders":11,"largest":3,"longest":31,"objects":5,"objects_at_01":1,"objects_at_02":2,"objects_at_03":1,"objects_at_04":1,"other":1,"renamed":5,"sites":7,"sites_at_00":1,"sites_at_01":2,"sites_at_02":2,"sites_at_03":1,"sites_at_04":1,"told":1}
"#,
    },
    Row {
        entries: SHARED,
        spoiled: &[],
        part: Part::Only("abc"),
        form: Form::Plain,
        calls: 35,
        log: r#"{"as":"name","path":"pairtree_root/^z"}
{"as":"past","path":"pairtree_root/a/bc"}
{"as":"desktop","path":"pairtree_root/a/bc/obj/.DS_Store"}
{"as":"other","path":"pairtree_root/ab/cd/ef/obj/l"}
{"as":"split","path":"pairtree_root/de/x"}
{"as":"end","bytes":4,"bytes_of_01":4,"desktop":1,"files":7,"files_of_00":5,"files_of_01":2,"folders":17,"largest":3,"longest":32,"name":1,"objects":5,"objects_at_01":1,"objects_at_02":2,"objects_at_03":1,"objects_at_04":1,"other":1,"past":1,"renamed":5,"sites":9,"sites_at_00":1,"sites_at_01":3,"sites_at_02":3,"sites_at_03":1,"sites_at_04":1,"split":1,"told":5}
"#,
    },
    Row {
        entries: SHARED,
        spoiled: &[],
        part: Part::Listed(&["abcd", "zz"]),
        form: Form::Plain,
        calls: 27,
        log: r#"{"as":"name","path":"pairtree_root/^z"}
{"as":"past","path":"pairtree_root/a/bc"}
{"as":"desktop","path":"pairtree_root/a/bc/obj/.DS_Store"}
{"as":"split","path":"pairtree_root/de/x"}
{"as":"end","bytes":1,"bytes_of_01":1,"desktop":1,"files":5,"files_of_00":4,"files_of_01":1,"folders":14,"largest":1,"longest":32,"name":1,"objects":2,"objects_at_01":1,"objects_at_02":1,"past":1,"renamed":2,"sites":6,"sites_at_00":1,"sites_at_01":3,"sites_at_02":2,"split":1,"told":4}
"#,
    },
    Row {
        entries: GATHERED,
        spoiled: &[],
        part: Part::Share(1, 2),
        form: Form::Gathering,
        calls: 11,
        log: r#"{"as":"empty","path":"pairtree_root/gh/xy"}
{"as":"end","bytes":4,"bytes_of_01":4,"empty":1,"files":1,"files_of_01":1,"folders":6,"largest":4,"longest":28,"objects":1,"objects_at_03":1,"renamed":1,"sites":4,"sites_at_00":1,"sites_at_01":1,"sites_at_02":1,"sites_at_03":1,"told":1}
"#,
    },
    Row {
        entries: GATHERED,
        spoiled: &[],
        part: Part::Share(2, 2),
        form: Form::Gathering,
        calls: 18,
        log: r#"{"as":"end","bytes":7,"bytes_of_01":7,"files":3,"files_of_01":3,"folders":2,"largest":6,"longest":25,"objects":2,"objects_at_01":1,"objects_at_02":1,"renamed":1,"sites":2,"sites_at_01":1,"sites_at_02":1,"told":0}
"#,
    },
    // Each tells that a site can't be listed, and the second that its object can't.
    Row {
        entries: UNREAD,
        spoiled: SPOILED,
        part: Part::Share(1, 3),
        form: Form::Plain,
        calls: 5,
        log: r#"{"as":"unreadable","path":"pairtree_root/ab/c","reason":"it failed"}
{"as":"end","bytes":0,"files":0,"folders":3,"largest":0,"longest":19,"objects":0,"sites":2,"sites_at_00":1,"sites_at_01":1,"told":1,"unreadable":1}
"#,
    },
    Row {
        entries: UNREAD,
        spoiled: SPOILED,
        part: Part::Share(2, 3),
        form: Form::Plain,
        calls: 6,
        log: r#"{"as":"unreadable","path":"pairtree_root/ab/c","reason":"it failed"}
{"as":"unreadable","path":"pairtree_root/ab/cd/obj","reason":"it failed"}
{"as":"end","bytes":0,"files":0,"folders":1,"largest":0,"longest":23,"objects":1,"objects_at_02":1,"renamed":1,"sites":1,"sites_at_02":1,"told":2,"unreadable":2}
"#,
    },
    Row {
        entries: UNREAD,
        spoiled: SPOILED,
        part: Part::Share(3, 3),
        form: Form::Plain,
        calls: 5,
        log: r#"{"as":"unreadable","path":"pairtree_root/ab/c","reason":"it failed"}
{"as":"end","bytes":0,"files":0,"folders":0,"largest":0,"longest":0,"objects":0,"sites":0,"told":1,"unreadable":1}
"#,
    },
    // What stands in the top is told by the first, or by the one that no names give.
    Row {
        entries: "pairtree_prefix/ ab/",
        spoiled: &[],
        part: Part::Share(1, 2),
        form: Form::Plain,
        calls: 3,
        log: r#"{"as":"prefix","path":"pairtree_prefix"}
{"as":"empty","path":"pairtree_root/ab"}
{"as":"end","bytes":0,"empty":1,"files":0,"folders":1,"largest":0,"longest":16,"objects":0,"prefix":1,"sites":2,"sites_at_00":1,"sites_at_01":1,"told":2}
"#,
    },
    Row {
        entries: "pairtree_prefix/ ab/",
        spoiled: &[],
        part: Part::Share(2, 2),
        form: Form::Plain,
        calls: 3,
        log: r#"{"as":"end","bytes":0,"files":0,"folders":0,"largest":0,"longest":0,"objects":0,"sites":0,"told":0}
"#,
    },
    Row {
        entries: "pairtree_prefix/ ab/",
        spoiled: &[],
        part: Part::Folders(1, 2, 1),
        form: Form::Plain,
        calls: 2,
        log: r#"{"as":"end","bytes":0,"files":0,"folders":0,"largest":0,"longest":0,"objects":0,"sites":0,"told":0}
"#,
    },
    Row {
        entries: "pairtree_prefix/ ab/",
        spoiled: &[],
        part: Part::Folders(2, 2, 1),
        form: Form::Plain,
        calls: 3,
        log: r#"{"as":"prefix","path":"pairtree_prefix"}
{"as":"empty","path":"pairtree_root/ab"}
{"as":"end","bytes":0,"empty":1,"files":0,"folders":1,"largest":0,"longest":16,"objects":0,"prefix":1,"sites":2,"sites_at_00":1,"sites_at_01":1,"told":2}
"#,
    },
];

// The share, where it is one.
fn share(alloc: Global, part: Part) -> Option<Share> {
    match part {
        Part::Share(index, count) => Share::of(index, count).ok(),
        Part::Folders(index, count, depth) => {
            let share = Share::of(index, count).ok()?;
            Some(share.by_folders(depth))
        }
        Part::Only(text) => {
            let texts = owned(alloc, &[text]).ok()?;
            Some(Share::whole().with_only(texts))
        }
        Part::Listed(ids) => {
            let name = String::from_str(alloc, "ids").ok()?;
            let list = IdentifierList::of(name, owned(alloc, ids).ok()?);
            Share::whole().with_list(alloc, list).ok()
        }
    }
}

fn owned(alloc: Global, texts: &[&str]) -> Result<Vec<String>, MemoryFault> {
    let mut all = Vec::new(alloc);
    for text in texts {
        all.push(String::from_str(alloc, text)?)?;
    }
    Ok(all)
}

// What is wanted of a check that reads each file whole.
fn wants(form: Form) -> Wants {
    Wants {
        reads: true,
        form,
        room: None,
        layout: Layout::default_form(),
    }
}

// Whether a check of a share ends well, and its log is this; and one call more passes after it, and
// no second.
fn tells(alloc: Global, source: SpoiledSource, row: &Row) -> bool {
    let Some(share) = share(alloc, row.part) else {
        return false;
    };
    let devices = CheckDevices {
        source,
        log: MemLog::new(alloc),
        explains: ItFailed { further: &[] },
    };
    let mut check = Check::new(alloc, devices, wants(row.form)).of_share(share);
    let ran = check.run();
    let ((mut source, held), _) = check.into_parts();
    let top = NamePath::new(alloc);
    let goes_on = lists(&mut source, &top) && !lists(&mut source, &top);
    ran.is_ok() && held.bytes() == row.log.as_bytes() && goes_on
}

fn lists(source: &mut SpoiledSource, dir: &NamePath) -> bool {
    source.source().has_dir(dir) && source.list(dir).is_ok()
}

fn holds(alloc: Global, row: &Row) -> bool {
    match spoiled_store(
        alloc,
        row.entries,
        row.spoiled,
        Some(row.calls.saturating_add(1)),
    ) {
        Ok(source) => tells(alloc, source, row),
        Err(_) => false,
    }
}

#[test]
fn each_trouble_is_told_by_its_share(rt: HostRuntime) {
    let wrong = ROWS.iter().position(|row| !holds(rt.alloc(), row));
    assert!(rt; wrong.is_none(), "row {wrong:?}");
}
