//! What the parser found for an argument.
ghost use Rattle.std.specs.Prelude.{◌≡◌, map, option_map};
ghost use Rattle.clap.specs.Words.{all_of, first_of, found_of, rows_of};
ghost use Rattle.pt_cli.specs.Arguments.{is_set_in, needed, number_in};

use crate::faults::Unread;
use clap::ArgMatches;

// What an argument gave that has to be there: the parser leaves none of these out.
pub(crate) fn require<T>(given: Option<T>) -> Result<T, Unread>
    ensures { result ≡ needed given }
{
    match given {
        Some(given) => Ok(given),
        None => Err(Unread::Missing),
    }
}

// Whether a flag was given.
pub(crate) fn is_set(matches: &ArgMatches<'_>, id: &str) -> bool
    ensures { result ≡ is_set_in id.now (rows_of (found_of matches.now)) }
{
    text(matches, id) == Some("true")
}

// The text of an option, given or by default.
pub(crate) fn text<'a>(matches: &ArgMatches<'a>, id: &str) -> Option<&'a str>
    ensures { option_map (λ s. s.now) result ≡ first_of id.now (rows_of (found_of matches.now)) }
{
    matches.get_str(id)
}

// The texts of an option that may be given again.
pub(crate) fn texts<'m, 'a>(matches: &'m ArgMatches<'a>, id: &str) -> Option<&'m [&'a str]>
    ensures { option_map (λ s. map (λ v. v.now) s.now) result
        ≡ all_of id.now (rows_of (found_of matches.now)) }
{
    matches.get_strs(id)
}

// The number of `u32` of an option, given or by default.
pub(crate) fn number(matches: &ArgMatches<'_>, id: &str) -> Option<u32>
    ensures { result ≡ number_in id.now (rows_of (found_of matches.now)) }
{
    matches.get_one(id)
}
