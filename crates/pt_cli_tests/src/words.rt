//! Words of a command line: the commands that are read of them, and the fault as which they are
//! refused.
use crate::audit_words::{AUDIT, REFUSED_OF_AUDIT, is_gathering};
use crate::check_words::{CHECK, REFUSED_OF_CHECK, SHARES_OF_CHECK, is_reading};
use crate::migrate_words::{
    MIGRATE, MOMENTS, OPTIONS, PARTS, REFUSED_OF_MIGRATE, Row, is_migration,
};
use pt_cli::{Command, NamesArgs, Text, WordsFault, read_words};
use pt_name::Layout;
use std::alloc::Global;
use std::test::Fail;

// What words are read as.
#[derive(Clone, Copy)]
pub(crate) enum Reading {
    // The names of `abc`, with no prefix and the usual tuples.
    Names,
    // The migration that the row has.
    Migration(&'static Row),
    // An audit of what was gathered, by SHA-256 and two tuples of three digits, with its event and
    // extras.
    Audit,
    // A check that reads each file, of all entries but those with one name, for a run into D that
    // gathers, with four tuples of two digits, of the second of three shares by folders two deep,
    // and of that what begins with one of two texts or stands in a list. It tells more, and shows
    // by L how far it is each five seconds, with its event.
    Check,
    // The fault of this number; 0 where it is a migration or a check.
    Fault(u8),
    // Help with this part.
    Help(&'static str),
    // A refusal of the parser with this part.
    Told(&'static str),
}

pub(crate) fn are_read(alloc: Global, words: &[&str], reading: Reading) -> bool {
    match &read_words(alloc, words) {
        Ok(command) => is_command(command, reading),
        Err(fault) => is_fault(fault, reading),
    }
}

fn is_command(command: &Command, reading: Reading) -> bool {
    match (command, reading) {
        (Command::Names(asked), Reading::Names) => are_of_abc(asked),
        (Command::Migrate(asked), Reading::Migration(row)) => is_migration(asked, row),
        (Command::Audit(asked), Reading::Audit) => is_gathering(asked),
        (Command::Check(asked), Reading::Check) => is_reading(asked),
        (Command::Migrate(_) | Command::Check(_), Reading::Fault(number)) => number == 0,
        _ => false,
    }
}

fn is_fault(fault: &WordsFault, reading: Reading) -> bool {
    match (fault, reading) {
        (WordsFault::Help(text), Reading::Help(part)) => text.as_str().contains(part),
        (WordsFault::Words(text), Reading::Told(part)) => text.as_str().contains(part),
        (_, Reading::Fault(number)) => fault.number() == number,
        _ => false,
    }
}

fn are_of_abc(asked: &NamesArgs) -> bool {
    (asked.prefix.as_str(), asked.id.as_str()) == ("", "abc") && has_tuples(&asked.layout, (3, 3))
}

// Whether this path is given, or none.
pub(crate) fn is_path(given: &Option<Text>, path: Option<&str>) -> bool {
    match (given, path) {
        (Some(given), Some(path)) => given.as_str() == path,
        (None, None) => true,
        _ => false,
    }
}

// Whether a layout has tuples of so many digits, and so many of them.
pub(crate) fn has_tuples(layout: &Layout, tuples: (u32, u32)) -> bool {
    (layout.size(), layout.count()) == tuples
}

#[test]
fn the_words_of_names_are_read(rt: HostRuntime) {
    assert!(rt;
        are_read(
            rt.alloc(),
            &["pairtree2ocfl", "names", "abc"],
            Reading::Names
        )
    );
}

// Words, each with the number of the fault that they are refused as; 0 of those of a migration or a
// check.
pub(crate) type Readings = &'static [(Words, u8)];

pub(crate) type Words = &'static [&'static str];

const REFUSED: Readings = &[
    (&["--help"], 1),
    (&["help"], 1),
    (&["--version"], 8),
    (&[], 2),
    (&["carry"], 2),
    (&["names", "--help"], 1),
    (&["names"], 2),
    (&["names", "a", "b"], 2),
    (&["names", ""], 5),
];

const PROGRAM: Words = &["pairtree2ocfl"];

// Words before and behind those of each row. All in one table are too large a term for one proof.
const REFUSALS: &[(Words, Readings, Words)] = &[
    (PROGRAM, REFUSED, &[]),
    (AUDIT, REFUSED_OF_AUDIT, &[]),
];

const REFUSALS_OF_CHECK: &[(Words, Readings, Words)] = &[
    (CHECK, REFUSED_OF_CHECK, &[]),
    (CHECK, SHARES_OF_CHECK, &["S"]),
];

const REFUSALS_OF_MIGRATE: &[(Words, Readings, Words)] = &[
    (MIGRATE, REFUSED_OF_MIGRATE, &[]),
    (MIGRATE, MOMENTS, &["--name=Ada", "S", "D"]),
    (MIGRATE, OPTIONS, &["S", "D"]),
    (MIGRATE, PARTS, &["S", "D"]),
];

// The first of these words that are read otherwise.
fn find_misread(
    alloc: Global,
    before: Words,
    readings: Readings,
    behind: Words,
) -> Result<Option<Words>, Fail> {
    for &(words, number) in readings {
        let all = join_words(alloc, before, words, behind)?;
        if !are_read(alloc, &all, Reading::Fault(number)) {
            return Ok(Some(words));
        }
    }
    Ok(None)
}

pub(crate) fn join_words(
    alloc: Global,
    before: Words,
    words: Words,
    behind: Words,
) -> Result<Vec<&'static str>, Fail> {
    let mut all = Vec::new(alloc);
    all.extend_from_slice(before)?;
    all.extend_from_slice(words)?;
    all.extend_from_slice(behind)?;
    Ok(all)
}

// The first words of these tables that are read otherwise.
fn find_misread_in(
    alloc: Global,
    refusals: &[(Words, Readings, Words)],
) -> Result<Option<Words>, Fail> {
    for &(before, readings, behind) in refusals {
        let misread = find_misread(alloc, before, readings, behind)?;
        if misread.is_some() {
            return Ok(misread);
        }
    }
    Ok(None)
}

#[test]
fn wrong_words_are_refused_by_their_number(rt: HostRuntime) -> Result<(), Fail> {
    let misread = find_misread_in(rt.alloc(), REFUSALS)?;
    assert!(rt; misread.is_none(), "{misread:?}");
    Ok(())
}

#[test]
fn wrong_words_of_check_are_refused_by_their_number(rt: HostRuntime) -> Result<(), Fail> {
    let misread = find_misread_in(rt.alloc(), REFUSALS_OF_CHECK)?;
    assert!(rt; misread.is_none(), "{misread:?}");
    Ok(())
}

#[test]
fn wrong_words_of_migrate_are_refused_by_their_number(rt: HostRuntime) -> Result<(), Fail> {
    let misread = find_misread_in(rt.alloc(), REFUSALS_OF_MIGRATE)?;
    assert!(rt; misread.is_none(), "{misread:?}");
    Ok(())
}

// The numbers of faults of words, each with the fault's text.
const TEXTS: &[(u8, &str)] = &[
    (3, "--created is not a moment of RFC 3339 to the second"),
    (4, "--name is empty"),
    (5, "the identifier is empty"),
    (6, "out of memory"),
    (
        7,
        "the tuples are out of range: --tuple-size and --tuples are each from 1 to 32, with a product of at most 64, or both 0",
    ),
    (
        9,
        "--share is not K/N with N from 1 to 4096 and K from 1 to N",
    ),
    (10, "--ignore is not the name of a file or folder"),
    (11, "--event is empty"),
    (12, "--list is empty"),
    (13, "--dest is empty"),
    (
        14,
        "--by-folders is not a number from 1 to 600 beside --share",
    ),
];

fn fault_of(number: u8) -> WordsFault {
    match number {
        3 => WordsFault::Created,
        4 => WordsFault::EmptyName,
        5 => WordsFault::EmptyId,
        6 => WordsFault::Memory,
        7 => WordsFault::Tuples,
        9 => WordsFault::Share,
        10 => WordsFault::Ignored,
        11 => WordsFault::EmptyEvent,
        12 => WordsFault::EmptyList,
        14 => WordsFault::Folders,
        _ => WordsFault::EmptyDest,
    }
}

fn tells(alloc: Global, fault: &WordsFault, number: u8, text: &str) -> Result<bool, Fail> {
    Ok(fault.number() == number && fault.to_string(alloc)?.as_str() == text)
}

#[test]
fn each_refusal_has_its_number_and_text(rt: HostRuntime) -> Result<(), Fail> {
    for &(number, text) in TEXTS {
        assert!(rt;
            tells(rt.alloc(), &fault_of(number), number, text)?,
            "{number}"
        );
    }
    Ok(())
}
