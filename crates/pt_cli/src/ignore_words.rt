//! The words of `--ignore`: names of the entries that are left out.
ghost use Rattle.std.specs.Prelude.{◌≡◌, map};
ghost use Rattle.clap.specs.Words.{found_of, rows_of};
ghost use Rattle.pt_tree.specs.Name.{is_name};
ghost use Rattle.pt_tree.specs.Refusal.{Answers as AnswersTo};
ghost use Rattle.pt_cli.specs.Arguments.{ReadsAs};
ghost use Rattle.pt_cli.specs.Ignore.{AreNamed, ignored_in, not_a_name};

use crate::arguments::texts;
use crate::faults::Unread;
use crate::ids::IGNORE;
use clap::ArgMatches;
use pt_tree::{Ignored, Name, NameFault};
use std::alloc::Global;

// The names that are left out: refused as `Ignored` where a text is none that an entry may have.
pub(crate) fn ignored_names(alloc: Global, matches: &ArgMatches<'_>) -> Result<Ignored, Unread>
    ensures { ReadsAs (ignored_in (rows_of (found_of matches.now))) result }
{
    match texts(matches, IGNORE) {
        Some(texts) => names_in(alloc, texts),
        None => Ok(Ignored::new(alloc)),
    }
}

// The names that texts write.
fn names_in(alloc: Global, texts: &[&str]) -> Result<Ignored, Unread>
    ensures { AreNamed (map (λ t. t.now) texts.now) result }
{
    let mut names = Ignored::new(alloc);
    for text in texts {
        names.add(name_in(alloc, text)?)?;
    }
    Ok(names)
}

// The name that a text writes.
fn name_in(alloc: Global, text: &str) -> Result<Name, Unread>
    ensures { AnswersTo (not_a_name (is_name text.now)) Unread.Memory result
        (λ name. name ≡ text.now) }
{
    match Name::of(alloc, text.as_bytes()) {
        Ok(name) => Ok(name),
        Err(NameFault::Memory) => Err(Unread::Memory),
        Err(_) => Err(Unread::Ignored),
    }
}
