//! A check of the store in a folder, on a machine.
//!
//! Where it ends well the output has got its lines, of what is the share's own in the tree that the
//! store's system keeps, without the entries that are left out; else its fault is want of memory,
//! or the log's, of which a piece couldn't be put (`IsFaultOfCheck`). After any answer that system
//! keeps the same tree, what stood in the output stands, the destination's system is as it was, and
//! the status follows from the answer (`ChecksOver`).
ghost use Rattle.std.specs.Prelude.{◌≡◌};
ghost use Rattle.pt_messages.specs.Expected.{AsksEnd};
ghost use Rattle.pt_host.specs.Checking.{ChecksLent, ChecksOver, ChecksStore, check_call};
ghost use Rattle.pt_host.specs.Checking.{check_status, wants_of as wants_of_options};
ghost use Rattle.pt_host.specs.Durable.{LogFails};
ghost use Rattle.pt_host.specs.Machine.{host_io_words};
ghost use Rattle.pt_host.specs.Totals.{check_totals};

use crate::account::Account;
use crate::devices::{CheckedStore, DeviceParts, open_store};
use crate::durable_log::{SyncsOutput, Writes};
use crate::explaining::LastFailure;
use crate::folders::Folders;
use crate::guarded::make_recorded;
use crate::operation::{Conclusion, Operation, has_list};
use crate::recorded_options::options_of_check;
use crate::room::room_in;
use crate::status::{DONE, FAILED, INCOMPLETE};
use crate::{CheckOptions, Feedback, Host, HostIo, Machine};
use pt_check::{Check, CheckDevices, Numbers, Wants};
use pt_folder::System;
use pt_messages::{
    CheckTotals, LastCalls, Members, Reads, ReadsFiles, Tally, Terminals, Totals, Words,
    entries_expected,
};
use pt_move::Fault;
use pt_walk::Form;
use std::alloc::{AllocError, AllocGlobal, Global};
use std::rt::Clock;

/// Checks the store in a folder on a machine, and gives the exit status: 0 nothing was told; 1 the
/// output has lines that tell of something, none of which would stop a run, or no object was met of
/// an identifier of the list; 2 the file of its event may not lie where it is named, or stands; 3
/// the output has a line of what would stop a run, or a fault, of which standard error tells, as of
/// 2 and of these identifiers.
///
/// Of a share what is its own is told and counted, and no folder is listed that a run of the share
/// doesn't list.
///
/// The machine is asked for no lock. What it lends is given back, that of a destination as it was.
/// What the source fails at is told on the output, and passed; so a fault is the output's, or want
/// of memory. Where a file is named for its event, that is made and replaced as of a run; it may
/// not lie in the store. The log that `--expect` names may be one of a check.
pub fn check_store<R, H: Host>(rt: &R, host: &mut H, options: CheckOptions, store: &str) -> u8
where
    R: Reads + Clock + Eprint + AllocGlobal + Terminals,
    ensures { ChecksStore ⟦<H as Machine>⟧.words
        (AsksEnd (⟦<R as ReadsFiles>⟧.file_words rt.now))
        (check_call options store.now) host.old host.new result }
{
    let folders = Folders {
        store,
        folder: store,
    };
    make_recorded(rt, host, options, folders)
}

impl Operation for CheckOptions {
    ghost use Rattle.std.specs.Prelude.{codes, false};
    ghost use Rattle.pt_host.specs.RecordedOptions.{check_members};

    ghost list_of = { λ options. options.share.list };

    ghost feedback_of = { λ options. options.feedback };

    ghost word_of = { λ _. codes "check" };

    ghost with_dest = { false };

    ghost options_of = { λ options. check_members options };

    ghost makes = { λ words asks folders options hosts.
        ChecksLent words asks (check_call options folders.0) hosts.0 hosts.1 };

    fn has_list(&self) -> bool {
        has_list(&self.share)
    }

    fn feedback(&self) -> &Feedback {
        &self.feedback
    }

    fn word(&self) -> &'static str {
        "check"
    }

    fn has_dest(&self) -> bool {
        false
    }

    fn members(&self, alloc: Global) -> Result<Members, AllocError> {
        options_of_check(alloc, self)
    }

    fn make<R, H: Host>(self, rt: &R, host: &mut H, folders: Folders<'_>) -> Conclusion
    where
        R: Reads + Clock + Eprint + AllocGlobal + Terminals,
    {
        let expected = entries_expected(rt, self.feedback.expected_log()).unwrap_or(None);
        let host_io = host.lend();
        // A check's log can be made again, so it isn't put onto its disk.
        let file: Option<H::File> = None;
        let parts = DeviceParts { host_io, file };
        let (host_io, conclusion) = check_over(rt, parts, self, expected, folders);
        host.take_back(host_io);
        conclusion
    }
}

// Checks a store over what is lent, watched as the options say. Gives what was lent, and how the
// check ended. `expected` is how many files and folders it may meet, where that is known.
fn check_over<R, S: System, D: System, W: Writes, F: SyncsOutput<W> + Drop>(
    rt: &R,
    parts: DeviceParts<S, D, W, F>,
    options: CheckOptions,
    expected: Option<u64>,
    folders: Folders<'_>,
) -> (HostIo<S, D, W>, Conclusion)
where
    R: Reads + Clock + Eprint + AllocGlobal + Terminals,
    ensures { ChecksOver (host_io_words S.forest S.failing D.forest W.contents)
        (LogFails W.writes F.puts parts.file)
        (check_call options folders.entry.store.now) parts.host_io result.0 result.1 }
{
    let tally = Tally::new();
    let watching = options.feedback.watching(Words::Check, expected);
    let account = Account::new(watching, &options.feedback, &options.ignored, folders);
    let wants = wants_of(&options);
    let CheckedStore {
        source,
        folder,
        log,
    } = open_store(rt.alloc(), parts, options.ignored, folders.store);
    let (source, log) = account.watch(rt, &tally, source, log);
    let devices = CheckDevices {
        source,
        log,
        explains: LastFailure,
    };
    let mut check = Check::new(rt.alloc(), devices, wants).of_share(options.share);
    let ran = check.run();
    let (watched, unmet) = check.into_parts();
    let (source, log, outcome) = account.close(rt, watched, ended(&ran), LastCalls::none());
    let host_io = HostIo {
        store: source.into_system(),
        folder,
        output: log.into_writer(),
    };
    let conclusion = Conclusion {
        status: status_of(&ran),
        outcome,
        unmet,
    };
    (host_io, conclusion)
}

// What these options want of a check.
fn wants_of(options: &CheckOptions) -> Wants
    ensures { result ≡ wants_of_options options.now }
{
    let room = match &options.dest {
        Some(dest) => Some(room_in(dest.as_str(), &options.layout)),
        None => None,
    };
    Wants {
        reads: options.reads,
        form: if options.gather {
            Form::Gathering
        } else {
            Form::Plain
        },
        room,
        layout: options.layout,
    }
}

// How a check ended: by a fault, or with what it says itself of the lines and what it met.
fn ended(ran: &Result<Numbers, Fault>) -> Result<Totals, Fault>
    ensures { result ≡ check_totals ran.now }
{
    match ran {
        Ok(numbers) => Ok(Totals::Check(CheckTotals {
            told: numbers.told,
            objects: numbers.objects,
            files: numbers.files,
            bytes: numbers.bytes,
        })),
        Err(fault) => Err(*fault),
    }
}

// The exit status of a check.
fn status_of(ran: &Result<Numbers, Fault>) -> u8
    ensures { result ≡ check_status ran.now }
{
    match ran {
        Ok(numbers) if numbers.stops_run() => FAILED,
        Ok(numbers) if numbers.told > 0 => INCOMPLETE,
        Ok(_) => DONE,
        Err(_) => FAILED,
    }
}
