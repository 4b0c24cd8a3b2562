//! The words of the command `check`.
ghost use Rattle.clap.specs.Words.{found_of, rows_of};
ghost use Rattle.pt_cli.specs.Arguments.{ReadsAs};
ghost use Rattle.pt_cli.specs.Options.{check_in};

use crate::arguments::{is_set, require, text};
use crate::faults::Unread;
use crate::feedback_words::feedback;
use crate::ids::{GATHER, INTO, LIST, READ, SOURCE};
use crate::ignore_words::ignored_names;
use crate::layout_words::layout;
use crate::path_words::path_of;
use crate::share_words::share;
use crate::{CheckArgs, Command, Text};
use clap::ArgMatches;
use pt_host::CheckOptions;
use std::alloc::Global;

// The check that is asked for: refused as `Tuples`, `Share`, `Folders`, `Ignored`, `EmptyDest`,
// `EmptyEvent` and `EmptyList`, in this order.
pub(crate) fn check_command(alloc: Global, matches: &ArgMatches<'_>) -> Result<Command, Unread>
    ensures { ReadsAs (check_in (rows_of (found_of matches.now))) result }
{
    let layout = layout(matches)?;
    let share = share(alloc, matches)?;
    let ignored = ignored_names(alloc, matches)?;
    let dest = path_of(alloc, text(matches, INTO), Unread::EmptyDest)?;
    let feedback = feedback(alloc, matches)?;
    let list = path_of(alloc, text(matches, LIST), Unread::EmptyList)?;
    let source = require(text(matches, SOURCE))?;
    let options = CheckOptions {
        reads: is_set(matches, READ),
        gather: is_set(matches, GATHER),
        ignored,
        dest,
        layout,
        share,
        feedback,
    };
    let source = Text::of(alloc, source)?;
    Ok(Command::Check(CheckArgs {
        options,
        source,
        list,
    }))
}
