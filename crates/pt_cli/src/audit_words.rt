//! The words of the command `audit`.
ghost use Rattle.clap.specs.Words.{found_of, rows_of};
ghost use Rattle.pt_cli.specs.Arguments.{ReadsAs};
ghost use Rattle.pt_cli.specs.Options.{audit_in, audit_meta, audit_options_in};

use crate::arguments::{is_set, text};
use crate::faults::Unread;
use crate::feedback_words::feedback;
use crate::ids::{EXTRA, LIST, QUICK, SKIPS_OK};
use crate::ignore_words::ignored_names;
use crate::job_words::job;
use crate::meta_words::meta_of;
use crate::path_words::{folders, path_of};
use crate::{Audit, Command};
use clap::ArgMatches;
use pt_host::AuditOptions;
use pt_object::Meta;
use std::alloc::Global;

// A moment for the inventories of the run that is compared; those that stand may give any.
const MOMENT: &str = "1970-01-01T00:00:00Z";

// The audit that is asked for: refused as its options are, and then as `EmptyList`.
pub(crate) fn audit_command(alloc: Global, matches: &ArgMatches<'_>) -> Result<Command, Unread>
    ensures { ReadsAs (audit_in (rows_of (found_of matches.now))) result }
{
    let options = audit_options(alloc, matches)?;
    let (source, dest) = folders(alloc, matches)?;
    let list = path_of(alloc, text(matches, LIST), Unread::EmptyList)?;
    Ok(Command::Audit(Audit {
        options,
        source,
        dest,
        list,
    }))
}

// The options of an audit: refused as `Tuples`, `Share`, `Folders`, `Ignored` and `EmptyEvent`, in
// this order.
fn audit_options(alloc: Global, matches: &ArgMatches<'_>) -> Result<AuditOptions, Unread>
    ensures { ReadsAs (audit_options_in (rows_of (found_of matches.now))) result }
{
    let job = job(alloc, matches, meta(alloc)?)?;
    let ignored = ignored_names(alloc, matches)?;
    let feedback = feedback(alloc, matches)?;
    Ok(AuditOptions {
        job,
        ignored,
        skips_ok: is_set(matches, SKIPS_OK),
        extra: is_set(matches, EXTRA),
        quick: is_set(matches, QUICK),
        feedback,
    })
}

// What the run that is compared says of its versions.
fn meta(alloc: Global) -> Result<Meta, Unread>
    ensures { ReadsAs audit_meta result }
{
    meta_of(alloc, MOMENT, "audit", None, "")
}
