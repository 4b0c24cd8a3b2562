//! The options of a run, of an audit and of a check as an event records them: each under its key,
//! with what it says or means where it isn't given (`run_members`, `audit_members`,
//! `check_members`). Of a list the name of its file is recorded, of which nothing is proved but
//! that it is recorded just where there is a list.
ghost use Rattle.std.specs.Prelude.{◌≡◌, IfOk, OnOk, is_some, option_map, string_bytes};
ghost use Rattle.pt_messages.specs.Members.{members_of};
ghost use Rattle.pt_host.specs.RecordedOptions.{AreRecorded, audit_members, check_members};
ghost use Rattle.pt_host.specs.RecordedOptions.{progress_word, run_members, share_numbers};
ghost use Rattle.pt_host.specs.RecordedOptions.{with_allowed, with_division, with_feedback};
ghost use Rattle.pt_host.specs.RecordedOptions.{with_job, with_layout, with_meta, with_share};
ghost use Rattle.pt_host.specs.RecordedOptions.{with_telling};

use crate::{AllowedLines, AuditOptions, CheckOptions, Feedback, RunOptions, Text};
use pt_messages::{Members, Progress};
use pt_move::Job;
use pt_name::{Division, Layout, Share};
use pt_object::Meta;
use std::alloc::{AllocError, Global};

/// Those of `migrate`. An error where a growth was refused.
pub(crate) fn options_of_run(alloc: Global, options: &RunOptions) -> Result<Members, AllocError>
    ensures { IfOk result (λ made. AreRecorded (run_members options.now) (members_of made)) }
{
    let mut members = Members::new(alloc);
    put_meta(&mut members, &options.job.meta)?;
    put_job(
        alloc,
        &mut members,
        &options.job,
        file_of(&options.job.share),
    )?;
    members.put_names("ignore", options.ignored.names())?;
    members.put_flag("sync", options.sync)?;
    members.put_flag("dry-run", options.rehearse)?;
    put_allowed(&mut members, options.allowed)?;
    put_feedback(&mut members, &options.feedback)?;
    Ok(members)
}

/// Those of `audit`. An error where a growth was refused.
pub(crate) fn options_of_audit(alloc: Global, options: &AuditOptions) -> Result<Members, AllocError>
    ensures { IfOk result (λ made. AreRecorded (audit_members options.now) (members_of made)) }
{
    let mut members = Members::new(alloc);
    put_job(
        alloc,
        &mut members,
        &options.job,
        file_of(&options.job.share),
    )?;
    members.put_names("ignore", options.ignored.names())?;
    members.put_flag("skips-ok", options.skips_ok)?;
    members.put_flag("extra", options.extra)?;
    members.put_flag("quick", options.quick)?;
    put_feedback(&mut members, &options.feedback)?;
    Ok(members)
}

/// Those of `check`. An error where a growth was refused.
pub(crate) fn options_of_check(alloc: Global, options: &CheckOptions) -> Result<Members, AllocError>
    ensures { IfOk result (λ made. AreRecorded (check_members options.now) (members_of made)) }
{
    let mut members = Members::new(alloc);
    members.put_flag("read", options.reads)?;
    members.put_flag("gather", options.gather)?;
    members.put_given("dest", text_of(&options.dest))?;
    put_layout(&mut members, &options.layout)?;
    put_share(alloc, &mut members, &options.share, file_of(&options.share))?;
    members.put_names("ignore", options.ignored.names())?;
    put_feedback(&mut members, &options.feedback)?;
    Ok(members)
}

// A text, if there is one.
fn text_of(text: &Option<Text>) -> Option<&str>
    ensures { option_map (λ text. text.now) result ≡ text.now }
{
    match text {
        Some(text) => Some(text.as_str()),
        None => None,
    }
}

// Those that say what a version tells of itself.
fn put_meta(members: &mut Members, meta: &Meta) -> Result<(), AllocError>
    ensures { OnOk result (members_of members.new ≡ with_meta meta.now (members_of members.old)) }
{
    members.put_text("created", meta.created())?;
    members.put_text("name", meta.name())?;
    members.put_given("address", meta.address())?;
    members.put_text("message", meta.message())
}

// Those that say which objects there are, and where they lie; the file of a list, if there is one,
// has this name.
fn put_job(
    alloc: Global,
    members: &mut Members,
    job: &Job,
    file: Option<&str>,
) -> Result<(), AllocError>
    ensures { OnOk result (members_of members.new
        ≡ with_job job.now (option_map (λ name. name.now) file.entry) (members_of members.old)) }
{
    members.put_text("digest", job.algorithm.word())?;
    put_layout(members, &job.layout)?;
    members.put_flag("gather", job.gather)?;
    put_share(alloc, members, &job.share, file)
}

// The name of the file of a share's list, if it has one.
fn file_of(share: &Share) -> Option<&str>
    ensures { is_some result ≡ is_some share.now.list }
{
    match share.list() {
        Some(list) => Some(list.name()),
        None => None,
    }
}

// Those that say what of a store is taken.
fn put_share(
    alloc: Global,
    members: &mut Members,
    share: &Share,
    file: Option<&str>,
) -> Result<(), AllocError>
    ensures { OnOk result (members_of members.new
        ≡ with_share share.now (option_map (λ name. name.now) file.entry)
        (members_of members.old)) }
{
    let number = share_text(alloc, share)?;
    members.put_text("share", number.as_str())?;
    put_division(members, share.division())?;
    members.put_texts("only", share.texts())?;
    members.put_given("list", file)
}

// The number of a share and how many there are, as `2/16`.
fn share_text(alloc: Global, share: &Share) -> Result<String, AllocError>
    ensures { IfOk result (λ text. string_bytes text ≡ share_numbers share.now) }
{
    let (index, count) = (share.index(), share.count());
    format!(in alloc; "{index}/{count}")
}

// By how many names of folders a store is divided, if it is by folders.
fn put_division(members: &mut Members, division: Division) -> Result<(), AllocError>
    ensures { OnOk result (members_of members.new
        ≡ with_division division (members_of members.old)) }
{
    match division {
        Division::Identifiers => Ok(()),
        Division::Folders(depth) => members.put_number("by-folders", u64::from(depth)),
    }
}

// Those that say how places are cut.
fn put_layout(members: &mut Members, layout: &Layout) -> Result<(), AllocError>
    ensures { OnOk result (members_of members.new
        ≡ with_layout layout.now (members_of members.old)) }
{
    members.put_number("tuple-size", u64::from(layout.size()))?;
    members.put_number("tuples", u64::from(layout.count()))
}

// Those that say which lines leave the status of a run at 0.
fn put_allowed(members: &mut Members, allowed: AllowedLines) -> Result<(), AllocError>
    ensures { OnOk result (members_of members.new
        ≡ with_allowed allowed (members_of members.old)) }
{
    members.put_flag("present-ok", allowed.present)?;
    members.put_flag("skips-ok", allowed.skips)
}

// Those that say what is told beside the log.
fn put_feedback(members: &mut Members, feedback: &Feedback) -> Result<(), AllocError>
    ensures { OnOk result (members_of members.new
        ≡ with_feedback feedback.now (members_of members.old)) }
{
    put_telling(members, feedback)?;
    members.put_given("expect", feedback.expected_log())?;
    members.put_given("event", feedback.event())
}

// Those that say how much of it standard error is told, and when.
fn put_telling(members: &mut Members, feedback: &Feedback) -> Result<(), AllocError>
    ensures { OnOk result (members_of members.new
        ≡ with_telling feedback.now (members_of members.old)) }
{
    members.put_flag("verbose", feedback.verbose)?;
    members.put_flag("quiet", feedback.quiet)?;
    members.put_text("progress", word_of(feedback.progress))?;
    members.put_number("interval", u64::from(feedback.interval))
}

// The word of `--progress`.
fn word_of(progress: Progress) -> &'static str
    ensures { result.now ≡ progress_word progress }
{
    match progress {
        Progress::Auto => "auto",
        Progress::Always => "always",
        Progress::Never => "never",
    }
}
