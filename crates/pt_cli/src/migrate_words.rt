//! The words of the command `migrate`.
ghost use Rattle.std.specs.Prelude.{◌≡◌};
ghost use Rattle.clap.specs.Words.{found_of, rows_of};
ghost use Rattle.pt_cli.specs.Arguments.{ReadsAs};
ghost use Rattle.pt_cli.specs.Options.{allowed_in, meta_in, migration_in, run_options_in};

use crate::arguments::{is_set, require, text};
use crate::faults::Unread;
use crate::feedback_words::feedback;
use crate::ids::{ADDRESS, CREATED, LIST, MESSAGE, NAME, PRESENT_OK, REHEARSE, SKIPS_OK, SYNC};
use crate::ignore_words::ignored_names;
use crate::job_words::job;
use crate::meta_words::meta_of;
use crate::path_words::{folders, path_of};
use crate::{Command, Migrate};
use clap::ArgMatches;
use pt_host::{AllowedLines, RunOptions};
use pt_object::Meta;
use std::alloc::Global;

// The migration that is asked for: refused as its options are, and then as `EmptyList`.
pub(crate) fn migrate_command(alloc: Global, matches: &ArgMatches<'_>) -> Result<Command, Unread>
    ensures { ReadsAs (migration_in (rows_of (found_of matches.now))) result }
{
    let options = run_options(alloc, matches)?;
    let (source, dest) = folders(alloc, matches)?;
    let list = path_of(alloc, text(matches, LIST), Unread::EmptyList)?;
    Ok(Command::Migrate(Migrate {
        options,
        source,
        dest,
        list,
    }))
}

// The options of a run: refused as `Created`, `EmptyName`, `Tuples`, `Share`, `Folders`,
// `Ignored` and `EmptyEvent`, in this order.
fn run_options(alloc: Global, matches: &ArgMatches<'_>) -> Result<RunOptions, Unread>
    ensures { ReadsAs (run_options_in (rows_of (found_of matches.now))) result }
{
    let job = job(alloc, matches, meta(alloc, matches)?)?;
    let ignored = ignored_names(alloc, matches)?;
    let feedback = feedback(alloc, matches)?;
    Ok(RunOptions {
        job,
        ignored,
        sync: is_set(matches, SYNC),
        rehearse: is_set(matches, REHEARSE),
        allowed: allowed_lines(matches),
        feedback,
    })
}

// Which lines of the log leave the status at 0.
fn allowed_lines(matches: &ArgMatches<'_>) -> AllowedLines
    ensures { result ≡ allowed_in (rows_of (found_of matches.now)) }
{
    AllowedLines {
        present: is_set(matches, PRESENT_OK),
        skips: is_set(matches, SKIPS_OK),
    }
}

// What the inventories are to say of their versions.
fn meta(alloc: Global, matches: &ArgMatches<'_>) -> Result<Meta, Unread>
    ensures { ReadsAs (meta_in (rows_of (found_of matches.now))) result }
{
    let created = require(text(matches, CREATED))?;
    let name = require(text(matches, NAME))?;
    let message = require(text(matches, MESSAGE))?;
    meta_of(alloc, created, name, text(matches, ADDRESS), message)
}
