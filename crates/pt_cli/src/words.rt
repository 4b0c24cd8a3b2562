//! From the words of a command line to the command that they ask for.
//!
//! The words are read exactly as `clap` reads them, for the grammar that the contract spells out
//! (`ReadsWords`). What the parser accepts always has an answer: `names` gives its identifier,
//! prefix and layout, or `EmptyId` for the empty one, or `Tuples`. `migrate` gives the values of
//! its options with their defaults and its two paths, or, in this order, `Created`, `EmptyName`,
//! `Tuples`, `Share`, `Folders`, `Ignored`, `EmptyEvent` or `EmptyList`; `check` gives those of its
//! own, or `Tuples`, `Share`, `Folders`, `Ignored`, `EmptyDest`, `EmptyEvent` or `EmptyList`. Help,
//! the version and `Words` come only where the parser's rules give them.
ghost use Rattle.std.specs.Prelude.{◌≡◌, [], map, option_map};
ghost use Rattle.clap.specs.Words.{found_of, rows_of, subcommand_rows_of};
ghost use Rattle.pt_cli.specs.Arguments.{IsThere, ReadsAs};
ghost use Rattle.pt_cli.specs.Options.{answer_to};
ghost use Rattle.pt_cli.specs.Words.{Answers, ReadsWords};

use crate::Command;
use crate::audit_words::audit_command;
use crate::check_words::check_command;
use crate::faults::{Unread, WordsFault, refusal};
use crate::grammar::parser;
use crate::ids::{AUDIT, CHECK, MIGRATE, NAMES};
use crate::migrate_words::migrate_command;
use crate::names_words::names_command;
use clap::ArgMatches;
use std::alloc::Global;
use std::convert::AsStr;

/// Reads the words of a command line, of which the first is the program's name.
///
/// Refused as `Help` where the parser was asked for help, as `Version` where for the version, and
/// as `Words` where it refuses the words otherwise. Then for `names` as `EmptyId`, where the
/// identifier is empty, and as `Tuples`. For `audit` as `Tuples`, `Share`, `Folders`, `Ignored`,
/// `EmptyEvent` and `EmptyList`, as below, and for `check` as `Tuples`, `Share`, `Folders`,
/// `Ignored`, `EmptyDest`, where `--dest` is the empty text, `EmptyEvent` and `EmptyList`. For
/// `migrate`, in this order, as `Created`, where `--created` isn't a moment of RFC 3339 to the
/// second; as `EmptyName`, where `--name` is empty; as `Tuples`, where `--tuple-size` and
/// `--tuples` aren't a layout of extension 0003-hash-and-id-n-tuple-storage-layout; as `Share`,
/// where `--share` isn't `K/N` with a share's two numbers; as `Folders`, where `--by-folders` isn't
/// a depth from 1 to 600, or `--share` isn't given; as `Ignored`, where `--ignore` isn't a name
/// that an entry may have; as `EmptyEvent` and as `EmptyList`, where `--event` or `--list` is the
/// empty text. As `Memory` where a growth was refused.
pub fn read_words<S: AsStr>(alloc: Global, words: &[S]) -> Result<Command, WordsFault>
    ensures { ReadsWords (map S.text words.now) result }
{
    match parser(alloc)?.try_get_matches_from(words) {
        Ok(matches) => command(alloc, &matches),
        Err(error) => Err(refusal(alloc, &error, words)),
    }
}

// The command that words which the parser accepts ask for: it leaves nothing out that has to be
// there.
fn command(alloc: Global, matches: &ArgMatches<'_>) -> Result<Command, WordsFault>
    requires { IsThere (answer_to (subcommand_rows_of matches.now)) }
    ensures { Answers [] (subcommand_rows_of matches.now) result }
{
    match answer(alloc, matches) {
        Ok(command) => Ok(command),
        Err(Unread::Created) => Err(WordsFault::Created),
        Err(Unread::EmptyName) => Err(WordsFault::EmptyName),
        Err(Unread::EmptyId) => Err(WordsFault::EmptyId),
        Err(Unread::Memory) => Err(WordsFault::Memory),
        Err(Unread::Tuples) => Err(WordsFault::Tuples),
        Err(Unread::Share) => Err(WordsFault::Share),
        Err(Unread::Folders) => Err(WordsFault::Folders),
        Err(Unread::Ignored) => Err(WordsFault::Ignored),
        Err(Unread::EmptyEvent) => Err(WordsFault::EmptyEvent),
        Err(Unread::EmptyList) => Err(WordsFault::EmptyList),
        Err(Unread::EmptyDest) => Err(WordsFault::EmptyDest),
        Err(Unread::Missing) => unreachable!(),
    }
}

// What the command that the parser found is answered.
fn answer(alloc: Global, matches: &ArgMatches<'_>) -> Result<Command, Unread>
    ensures { ReadsAs (answer_to (subcommand_rows_of matches.now)) result }
{
    match find_command(matches) {
        Some((NAMES, inner)) => names_command(alloc, inner),
        Some((MIGRATE, inner)) => migrate_command(alloc, inner),
        Some((AUDIT, inner)) => audit_command(alloc, inner),
        Some((CHECK, inner)) => check_command(alloc, inner),
        _ => Err(Unread::Missing),
    }
}

// The command that the parser found, and what was found for its arguments.
fn find_command<'m, 'a>(matches: &'m ArgMatches<'a>) -> Option<(&'a str, &'m ArgMatches<'a>)>
    ensures { option_map (λ p. (p.0.now, rows_of (found_of p.1.now))) result
        ≡ subcommand_rows_of matches.now }
{
    matches.subcommand()
}
