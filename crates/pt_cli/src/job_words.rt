//! The words that say what is carried, and how: `--digest` and `--gather`, and those of the layout
//! and of the share.
ghost use Rattle.std.specs.Prelude.{◌≡◌};
ghost use Rattle.clap.specs.Words.{found_of, rows_of};
ghost use Rattle.pt_cli.specs.Arguments.{ReadsAs, algorithm_in, algorithm_of};
ghost use Rattle.pt_cli.specs.Options.{job_in};

use crate::arguments::{is_set, require, text};
use crate::faults::Unread;
use crate::ids::{DIGEST, GATHER};
use crate::layout_words::layout;
use crate::share_words::share;
use clap::ArgMatches;
use pt_move::Job;
use pt_object::{Algorithm, Meta};
use pt_walk::Limits;
use std::alloc::Global;

// The run whose versions are described so, with the greatest limits: refused as `Tuples`, and then
// as `Share` and `Folders`.
pub(crate) fn job(alloc: Global, matches: &ArgMatches<'_>, meta: Meta) -> Result<Job, Unread>
    ensures { ReadsAs (job_in meta (rows_of (found_of matches.now))) result }
{
    let algorithm = algorithm(matches)?;
    let layout = layout(matches)?;
    let share = share(alloc, matches)?;
    Ok(Job {
        meta,
        layout,
        algorithm,
        limits: Limits::greatest(),
        gather: is_set(matches, GATHER),
        share,
    })
}

// The algorithm of the inventories.
fn algorithm(matches: &ArgMatches<'_>) -> Result<Algorithm, Unread>
    ensures { result ≡ algorithm_in (rows_of (found_of matches.now)) }
{
    require(algorithm_by_word(require(text(matches, DIGEST))?))
}

fn algorithm_by_word(word: &str) -> Option<Algorithm>
    ensures { result ≡ algorithm_of word.now }
{
    match word {
        "sha512" => Some(Algorithm::Sha512),
        "sha256" => Some(Algorithm::Sha256),
        _ => None,
    }
}
