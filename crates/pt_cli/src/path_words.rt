//! The words that are paths: those of SOURCE and DEST, and of the options that name a file or a
//! folder.
ghost use Rattle.std.specs.Prelude.{IfOk, ◌≡◌, option_map};
ghost use Rattle.clap.specs.Words.{found_of, rows_of};
ghost use Rattle.pt_cli.specs.Arguments.{ReadsAs, path_only};
ghost use Rattle.pt_cli.specs.Options.{folders_in};

use crate::Text;
use crate::arguments::{require, text};
use crate::faults::Unread;
use crate::ids::{DEST, SOURCE};
use clap::ArgMatches;
use pt_tree::MemoryFault;
use std::alloc::Global;

// The store, and the destination.
pub(crate) fn folders(alloc: Global, matches: &ArgMatches<'_>) -> Result<(Text, Text), Unread>
    ensures { ReadsAs (folders_in (rows_of (found_of matches.now))) result }
{
    let source = require(text(matches, SOURCE))?;
    let dest = require(text(matches, DEST))?;
    Ok((Text::of(alloc, source)?, Text::of(alloc, dest)?))
}

// A copy of a path, where one is given: an empty one is refused so.
pub(crate) fn path_of(
    alloc: Global,
    path: Option<&str>,
    refusal: Unread,
) -> Result<Option<Text>, Unread>
    ensures { ReadsAs (path_only refusal (option_map (λ t. t.now) path.entry)) result }
{
    let Some(path) = path else {
        return Ok(None);
    };
    if path.is_empty() {
        return Err(refusal);
    }
    Ok(Some(Text::of(alloc, path)?))
}

// A copy of a text, where there is one.
pub(crate) fn copy_of(alloc: Global, text: Option<&str>) -> Result<Option<Text>, MemoryFault>
    ensures { IfOk result (λ copy. copy ≡ option_map (λ t. t.now) text.entry) }
{
    match text {
        Some(text) => Ok(Some(Text::of(alloc, text)?)),
        None => Ok(None),
    }
}
