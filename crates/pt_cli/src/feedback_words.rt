//! The words that say what is told beside the log: `--verbose`, `--quiet`, `--progress`,
//! `--interval`, `--expect` and `--event`.
ghost use Rattle.std.specs.Prelude.{◌≡◌};
ghost use Rattle.clap.specs.Words.{found_of, rows_of};
ghost use Rattle.pt_cli.specs.Arguments.{ReadsAs, progress_in, progress_of};
ghost use Rattle.pt_cli.specs.Options.{feedback_in};

use crate::arguments::{is_set, number, require, text};
use crate::faults::Unread;
use crate::ids::{EVENT, EXPECT, INTERVAL, PROGRESS, QUIET, VERBOSE};
use crate::path_words::{copy_of, path_of};
use clap::ArgMatches;
use pt_host::{Feedback, Progress};
use std::alloc::Global;

// What standard error is to show, and the file of the event: refused as `EmptyEvent`.
pub(crate) fn feedback(alloc: Global, matches: &ArgMatches<'_>) -> Result<Feedback, Unread>
    ensures { ReadsAs (feedback_in (rows_of (found_of matches.now))) result }
{
    let progress = progress(matches)?;
    let interval = require(number(matches, INTERVAL))?;
    Ok(Feedback {
        verbose: is_set(matches, VERBOSE),
        quiet: is_set(matches, QUIET),
        progress,
        interval,
        expected: copy_of(alloc, text(matches, EXPECT))?,
        event: path_of(alloc, text(matches, EVENT), Unread::EmptyEvent)?,
    })
}

// When it is to be shown how far it is.
fn progress(matches: &ArgMatches<'_>) -> Result<Progress, Unread>
    ensures { result ≡ progress_in (rows_of (found_of matches.now)) }
{
    require(progress_by_word(require(text(matches, PROGRESS))?))
}

fn progress_by_word(word: &str) -> Option<Progress>
    ensures { result ≡ progress_of word.now }
{
    match word {
        "auto" => Some(Progress::Auto),
        "always" => Some(Progress::Always),
        "never" => Some(Progress::Never),
        _ => None,
    }
}
