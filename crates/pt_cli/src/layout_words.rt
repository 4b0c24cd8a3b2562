//! The words of a layout: `--tuple-size` and `--tuples`.
ghost use Rattle.std.specs.Prelude.{◌≡◌};
ghost use Rattle.clap.specs.Words.{found_of, rows_of};
ghost use Rattle.pt_cli.specs.Options.{layout_in};

use crate::arguments::{number, require};
use crate::faults::Unread;
use crate::ids::{TUPLE_SIZE, TUPLES};
use clap::ArgMatches;
use pt_name::Layout;

// How the places are cut: refused as `Tuples`, where the two numbers aren't a layout.
pub(crate) fn layout(matches: &ArgMatches<'_>) -> Result<Layout, Unread>
    ensures { result ≡ layout_in (rows_of (found_of matches.now)) }
{
    let size = require(number(matches, TUPLE_SIZE))?;
    let count = require(number(matches, TUPLES))?;
    Ok(Layout::of(size, count)?)
}
