//! The words of the command `names`.
ghost use Rattle.clap.specs.Words.{found_of, rows_of};
ghost use Rattle.pt_cli.specs.Arguments.{ReadsAs};
ghost use Rattle.pt_cli.specs.Options.{names_in};

use crate::arguments::{require, text};
use crate::faults::Unread;
use crate::ids::{ID, PREFIX};
use crate::layout_words::layout;
use crate::{Command, NamesArgs, Text};
use clap::ArgMatches;
use std::alloc::Global;

// The identifier whose names are asked for: refused as `EmptyId`, and then as `Tuples`.
pub(crate) fn names_command(alloc: Global, matches: &ArgMatches<'_>) -> Result<Command, Unread>
    ensures { ReadsAs (names_in (rows_of (found_of matches.now))) result }
{
    let id = require(text(matches, ID))?;
    if id.is_empty() {
        return Err(Unread::EmptyId);
    }
    let layout = layout(matches)?;
    Ok(Command::Names(NamesArgs {
        id: Text::of(alloc, id)?,
        prefix: Text::of(alloc, text(matches, PREFIX).unwrap_or(""))?,
        layout,
    }))
}
