//! The lines of a check over stores in memory.
#![tactic(auto)]

use crate::spoiled_stores::{ItFailed, spoiled_store};
use pt_check::{Check, CheckDevices, Wants};
use pt_memory::{MemLog, MemSource, SpoiledSource};
use pt_name::Layout;
use pt_walk::Form;
use std::alloc::Global;

// A check: the store's entries, where nothing can be read, how many calls of it pass, the further
// reasons of one that doesn't, the room of a destination, whether its places have tuples, the form
// of the run that it is made for, and the log.
struct Row {
    entries: &'static str,
    spoiled: &'static [&'static str],
    calls: Option<u64>,
    further: &'static [&'static str],
    room: Option<u64>,
    has_tuples: bool,
    form: Form,
    log: &'static str,
}

const WHOLE: Row = Row {
    entries: " ab/c/obj/f=abc",
    spoiled: &[],
    calls: None,
    further: &[],
    room: None,
    has_tuples: true,
    form: Form::Plain,
    log: "{\"as\":\"end\",\"bytes\":3,\"bytes_of_01\":3,\"files\":1,\"files_of_01\":1,\"folders\":3,\"largest\":3,\"longest\":24,\"objects\":1,\"objects_at_02\":1,\"renamed\":1,\"sites\":3,\"sites_at_00\":1,\"sites_at_01\":1,\"sites_at_02\":1,\"told\":0}\n",
};

const TWO_OBJECTS: Row = Row {
    entries: " ab/c/obj/f=abc ab/d/obj/f=de ab/d/obj/g=fg ab/d/obj/h/i=hi",
    spoiled: &[],
    calls: None,
    further: &[],
    room: None,
    has_tuples: true,
    form: Form::Plain,
    log: "{\"as\":\"end\",\"bytes\":9,\"bytes_of_01\":9,\"files\":4,\"files_of_01\":4,\"folders\":6,\"largest\":6,\"longest\":26,\"objects\":2,\"objects_at_02\":2,\"renamed\":2,\"sites\":4,\"sites_at_00\":1,\"sites_at_01\":1,\"sites_at_02\":2,\"told\":0}\n",
};

// Files of no byte, of nine and of ten.
const LENGTHS: Row = Row {
    entries: " ab/c/obj/f=abcdefghij ab/c/obj/g=abcdefghi ab/c/obj/h=",
    spoiled: &[],
    calls: None,
    further: &[],
    room: None,
    has_tuples: true,
    form: Form::Plain,
    log: "{\"as\":\"end\",\"bytes\":19,\"bytes_of_01\":9,\"bytes_of_02\":10,\"files\":3,\"files_of_00\":1,\"files_of_01\":1,\"files_of_02\":1,\"folders\":3,\"largest\":19,\"longest\":24,\"objects\":1,\"objects_at_02\":1,\"renamed\":1,\"sites\":3,\"sites_at_00\":1,\"sites_at_01\":1,\"sites_at_02\":1,\"told\":0}\n",
};

const STRAY: Row = Row {
    entries: " ab/c/.DS_Store=x ab/c/obj/f=abc",
    spoiled: &[],
    calls: None,
    further: &[],
    room: None,
    has_tuples: true,
    form: Form::Plain,
    log: "{\"as\":\"split\",\"path\":\"pairtree_root/ab/c\"}\n{\"as\":\"desktop\",\"path\":\"pairtree_root/ab/c/.DS_Store\"}\n{\"as\":\"end\",\"bytes\":4,\"bytes_of_01\":4,\"desktop\":1,\"files\":2,\"files_of_01\":2,\"folders\":3,\"largest\":0,\"longest\":28,\"objects\":0,\"sites\":3,\"sites_at_00\":1,\"sites_at_01\":1,\"sites_at_02\":1,\"split\":1,\"told\":2}\n",
};

const OTHER: Row = Row {
    entries: " ab/c/obj/l?",
    spoiled: &[],
    calls: None,
    further: &[],
    room: None,
    has_tuples: true,
    form: Form::Plain,
    log: "{\"as\":\"other\",\"path\":\"pairtree_root/ab/c/obj/l\"}\n{\"as\":\"end\",\"bytes\":0,\"files\":0,\"folders\":3,\"largest\":0,\"longest\":24,\"objects\":1,\"objects_at_02\":1,\"other\":1,\"renamed\":1,\"sites\":3,\"sites_at_00\":1,\"sites_at_01\":1,\"sites_at_02\":1,\"told\":1}\n",
};

const BAD_NAME: Row = Row {
    entries: " ^z/c/obj/f=",
    spoiled: &[],
    calls: None,
    further: &[],
    room: None,
    has_tuples: true,
    form: Form::Plain,
    log: "{\"as\":\"name\",\"path\":\"pairtree_root/^z/c\"}\n{\"as\":\"end\",\"bytes\":0,\"files\":1,\"files_of_00\":1,\"folders\":3,\"largest\":0,\"longest\":24,\"name\":1,\"objects\":1,\"objects_at_02\":1,\"renamed\":1,\"sites\":3,\"sites_at_00\":1,\"sites_at_01\":1,\"sites_at_02\":1,\"told\":1}\n",
};

// The site of `ab` is `ab`, and this one is its twin, if that is there.
const SPELLING: Row = Row {
    entries: " ^6/1b/obj/f=",
    spoiled: &[],
    calls: None,
    further: &[],
    room: None,
    has_tuples: true,
    form: Form::Plain,
    log: "{\"as\":\"spelling\",\"path\":\"pairtree_root/^6/1b\"}\n{\"as\":\"end\",\"bytes\":0,\"files\":1,\"files_of_00\":1,\"folders\":3,\"largest\":0,\"longest\":25,\"objects\":1,\"objects_at_02\":1,\"renamed\":1,\"sites\":3,\"sites_at_00\":1,\"sites_at_01\":1,\"sites_at_02\":1,\"spelling\":1,\"told\":1}\n",
};

const PAST: Row = Row {
    entries: " a/bc/obj/f=",
    spoiled: &[],
    calls: None,
    further: &[],
    room: None,
    has_tuples: true,
    form: Form::Plain,
    log: "{\"as\":\"past\",\"path\":\"pairtree_root/a/bc\"}\n{\"as\":\"end\",\"bytes\":0,\"files\":1,\"files_of_00\":1,\"folders\":3,\"largest\":0,\"longest\":24,\"objects\":0,\"past\":1,\"sites\":2,\"sites_at_00\":1,\"sites_at_01\":1,\"told\":1}\n",
};

// After the top, `pairtree_root` and `ab` no call passes: each folder beside them is still met, and
// told.
const FAILING: Row = Row {
    entries: " ab/c/obj/f=abc de/f/obj/g=de",
    spoiled: &[],
    calls: Some(3),
    further: &[],
    room: None,
    has_tuples: true,
    form: Form::Plain,
    log: "{\"as\":\"unreadable\",\"path\":\"pairtree_root/ab/c\",\"reason\":\"it failed\"}\n{\"as\":\"unreadable\",\"path\":\"pairtree_root/de\",\"reason\":\"it failed\"}\n{\"as\":\"end\",\"bytes\":0,\"files\":0,\"folders\":3,\"largest\":0,\"longest\":18,\"objects\":0,\"sites\":2,\"sites_at_00\":1,\"sites_at_01\":1,\"told\":2,\"unreadable\":2}\n",
};

// The site of `ab/c` lists its entries, but isn't judged: it counts as none, and has no object. The
// next one is whole.
const PART: Row = Row {
    entries: " ab/c/obj/f=abc ab/c/de/obj/l? de/f/obj/g=de",
    spoiled: &["pairtree_root/ab/c"],
    calls: None,
    further: &["again", "and again"],
    room: None,
    has_tuples: true,
    form: Form::Plain,
    log: "{\"as\":\"unreadable\",\"path\":\"pairtree_root/ab/c\",\"reason\":\"it failed\"}\n{\"as\":\"unreadable\",\"path\":\"pairtree_root/ab/c\",\"reason\":\"again\"}\n{\"as\":\"unreadable\",\"path\":\"pairtree_root/ab/c\",\"reason\":\"and again\"}\n{\"as\":\"past\",\"path\":\"pairtree_root/ab/c/de\"}\n{\"as\":\"other\",\"path\":\"pairtree_root/ab/c/de/obj/l\"}\n{\"as\":\"end\",\"bytes\":5,\"bytes_of_01\":5,\"files\":2,\"files_of_01\":2,\"folders\":8,\"largest\":2,\"longest\":27,\"objects\":1,\"objects_at_02\":1,\"other\":1,\"past\":1,\"renamed\":1,\"sites\":4,\"sites_at_00\":1,\"sites_at_01\":2,\"sites_at_02\":1,\"told\":5,\"unreadable\":3}\n",
};

// So does the top of a store.
const PART_OF_TOP: Row = Row {
    entries: " ab/c/obj/f=abc",
    spoiled: &[""],
    calls: None,
    further: &["again"],
    room: None,
    has_tuples: true,
    form: Form::Plain,
    log: "{\"as\":\"unreadable\",\"path\":\"\",\"reason\":\"it failed\"}\n{\"as\":\"unreadable\",\"path\":\"\",\"reason\":\"again\"}\n{\"as\":\"end\",\"bytes\":3,\"bytes_of_01\":3,\"files\":1,\"files_of_01\":1,\"folders\":3,\"largest\":3,\"longest\":24,\"objects\":1,\"objects_at_02\":1,\"renamed\":1,\"sites\":3,\"sites_at_00\":1,\"sites_at_01\":1,\"sites_at_02\":1,\"told\":2,\"unreadable\":2}\n",
};

// There is room for the two bytes of `ff`, and not for the three of `d/f`; what is no file of an
// object needs none.
const ROOM: Row = Row {
    entries: " ab/c/obj/d/f=abc ab/c/obj/ff=de ad/e/obj/longer/",
    spoiled: &[],
    calls: None,
    further: &[],
    room: Some(2),
    has_tuples: true,
    form: Form::Plain,
    log: "{\"as\":\"place\",\"path\":\"pairtree_root/ab/c/obj/d/f\"}\n{\"as\":\"end\",\"bytes\":5,\"bytes_of_01\":5,\"files\":2,\"files_of_01\":2,\"folders\":8,\"largest\":5,\"longest\":29,\"objects\":2,\"objects_at_02\":2,\"place\":1,\"renamed\":2,\"sites\":5,\"sites_at_00\":1,\"sites_at_01\":2,\"sites_at_02\":2,\"told\":1}\n",
};

// What lies beside the shorty `de` is one object: `a` and `far`, and not what is below `de`, which
// has an object of its own. So `far/g` has five bytes there, and the largest object six.
const GATHERED: Row = Row {
    entries: " ab/cd/a=abc ab/cd/de/obj/f=defg ab/cd/far/g=ghi gh/obj/f=k gh/xy/",
    spoiled: &[],
    calls: None,
    further: &[],
    room: Some(2),
    has_tuples: true,
    form: Form::Gathering,
    log: "{\"as\":\"place\",\"path\":\"pairtree_root/ab/cd/far/g\"}\n{\"as\":\"empty\",\"path\":\"pairtree_root/gh/xy\"}\n{\"as\":\"end\",\"bytes\":11,\"bytes_of_01\":11,\"empty\":1,\"files\":4,\"files_of_01\":4,\"folders\":8,\"largest\":6,\"longest\":28,\"objects\":3,\"objects_at_01\":1,\"objects_at_02\":1,\"objects_at_03\":1,\"place\":1,\"renamed\":2,\"sites\":6,\"sites_at_00\":1,\"sites_at_01\":2,\"sites_at_02\":2,\"sites_at_03\":1,\"told\":2}\n",
};

// Longer pieces: `def` and `ghi` hold shorties, `ghi` beside one folder; `xyz` has a file too, and
// `obj` lies below one that is told.
const WIDTH: Row = Row {
    entries: " ab/cd/def/f/obj/g= ab/ef/ghi/j/obj/g= ab/ef/ghi/jkl/f= ab/gh/xyz/f= ab/gh/xyz/v1/g=",
    spoiled: &[],
    calls: None,
    further: &[],
    room: None,
    has_tuples: true,
    form: Form::Plain,
    log: "{\"as\":\"width\",\"path\":\"pairtree_root/ab/cd/def\"}\n{\"as\":\"width\",\"path\":\"pairtree_root/ab/ef/ghi\"}\n{\"as\":\"end\",\"bytes\":0,\"files\":5,\"files_of_00\":5,\"folders\":13,\"largest\":0,\"longest\":31,\"objects\":3,\"objects_at_02\":3,\"renamed\":3,\"sites\":5,\"sites_at_00\":1,\"sites_at_01\":1,\"sites_at_02\":3,\"told\":2,\"width\":2}\n",
};

// Without tuples the place of `extensions` is the root's own.
const RESERVED: Row = Row {
    entries: " ex/te/ns/io/ns/obj/f=",
    spoiled: &[],
    calls: None,
    further: &[],
    room: None,
    has_tuples: false,
    form: Form::Plain,
    log: "{\"as\":\"reserved\",\"path\":\"pairtree_root/ex/te/ns/io/ns\"}\n{\"as\":\"end\",\"bytes\":0,\"files\":1,\"files_of_00\":1,\"folders\":6,\"largest\":0,\"longest\":34,\"objects\":1,\"objects_at_05\":1,\"renamed\":1,\"reserved\":1,\"sites\":6,\"sites_at_00\":1,\"sites_at_01\":1,\"sites_at_02\":1,\"sites_at_03\":1,\"sites_at_04\":1,\"sites_at_05\":1,\"told\":1}\n",
};

// The store of no entry lacks nothing; a source of nothing lacks the version's file and
// `pairtree_root`.
const EMPTY: &str =
    "{\"as\":\"missing\",\"path\":\"pairtree_version0_1\"}\n{\"as\":\"missing\",\"path\":\"pairtree_root\"}\n{\"as\":\"end\",\"bytes\":0,\"files\":0,\"folders\":0,\"largest\":0,\"longest\":0,\"missing\":2,\"objects\":0,\"sites\":0,\"told\":2}\n";

const ROWS: [Row; 15] = [
    WHOLE,
    TWO_OBJECTS,
    LENGTHS,
    STRAY,
    OTHER,
    BAD_NAME,
    SPELLING,
    PAST,
    FAILING,
    PART,
    PART_OF_TOP,
    ROOM,
    GATHERED,
    WIDTH,
    RESERVED,
];

// What is wanted of a check that reads each file whole.
fn wanted(form: Form, room: Option<u64>, has_tuples: bool) -> Wants {
    let layout = match Layout::of(0, 0) {
        Ok(flat) if !has_tuples => flat,
        _ => Layout::default_form(),
    };
    Wants {
        reads: true,
        form,
        room,
        layout,
    }
}

// Whether a check of which this is wanted ends well, and its log is this.
fn tells(
    alloc: Global,
    source: SpoiledSource,
    further: &'static [&'static str],
    wants: Wants,
    log: &str,
) -> bool {
    let devices = CheckDevices {
        source,
        log: MemLog::new(alloc),
        explains: ItFailed { further },
    };
    let mut check = Check::new(alloc, devices, wants);
    let ran = check.run();
    let ((_, held), _) = check.into_parts();
    ran.is_ok() && held.bytes() == log.as_bytes()
}

fn holds(alloc: Global, row: &Row) -> bool {
    match spoiled_store(alloc, row.entries, row.spoiled, row.calls) {
        Ok(source) => {
            let wants = wanted(row.form, row.room, row.has_tuples);
            tells(alloc, source, row.further, wants, row.log)
        }
        Err(_) => false,
    }
}

#[test]
fn each_trouble_is_told_in_its_place(rt: HostRuntime) {
    let wrong = ROWS.iter().position(|row| !holds(rt.alloc(), row));
    assert!(rt; wrong.is_none(), "row {wrong:?}");
}

#[test]
fn what_a_store_must_have_is_told_as_missing(rt: HostRuntime) {
    assert!(rt;
        tells(
            rt.alloc(),
            SpoiledSource::new(MemSource::new(rt.alloc()), Vec::new(rt.alloc())),
            &[],
            wanted(Form::Plain, None, true),
            EMPTY
        )
    );
}
