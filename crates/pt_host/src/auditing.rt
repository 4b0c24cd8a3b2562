//! An audit over what a machine lends, and what it came to.
//!
//! Where it ends well the output has got its log, of the trees that both systems keep, and after a
//! fault a front of it. After any answer both systems keep the same trees, what stood in the output
//! stands, a refusal is true of the store and of the root, a device is blamed only where it failed
//! (`IsOfFailed`), and the status follows from the answer (`AuditsOver`). Where that was asked for,
//! what was passed over counts as well (`others`).
ghost use Rattle.std.specs.Prelude.{◌≡◌};
ghost use Rattle.pt_folder.specs.HostSource.{system_of as store_system};
ghost use Rattle.pt_host.specs.Audits.{AuditsOver, audit_call, audit_status, failed_calls};
ghost use Rattle.pt_host.specs.Audits.{compare_by, words_with};
ghost use Rattle.pt_host.specs.Durable.{LogFails};
ghost use Rattle.pt_host.specs.Machine.{host_io_words};
ghost use Rattle.pt_host.specs.ReadSteps.{FailsBetween};
ghost use Rattle.pt_host.specs.Told.{CameTo};
ghost use Rattle.pt_host.specs.Totals.{audit_totals};

use crate::account::Account;
use crate::devices::{AuditSides, DeviceParts, open_sides};
use crate::durable_log::{DurableLog, SyncsOutput, Writes};
use crate::explaining::LastFailure;
use crate::folders::Folders;
use crate::operation::Conclusion;
use crate::status::{DONE, FAILED, INCOMPLETE};
use crate::stepped::SteppedFolder;
use crate::traced::Traced;
use crate::{AuditOptions, HostIo};
use pt_audit::{AuditTask, CompareBy};
use pt_extra::{AuditCounts, AuditEnd, ExtraDevices, audit};
use pt_folder::{HostSource, System};
use pt_messages::{
    AuditTotals, CountedLog, LastCalls, Reads, Tally, Terminals, Totals, Watch, Words,
};
use pt_move::Fault;
use pt_tree::{Ignoring, Watched};
use std::alloc::AllocGlobal;
use std::rt::Clock;

/// Holds the root in a folder against a store over what a machine lends, watched as its options
/// say. Gives back what was lent, and how the audit ended.
/// `expected` is how many lines its log may come to, where that is known, and `folders` has the
/// paths.
pub(crate) fn audit_over<R, S: System, D: System, W: Writes, F: SyncsOutput<W> + Drop>(
    rt: &R,
    parts: DeviceParts<S, D, W, F>,
    options: AuditOptions,
    expected: Option<u64>,
    folders: Folders<'_>,
) -> (HostIo<S, D, W>, Conclusion)
where
    R: Reads + Clock + Eprint + AllocGlobal + Terminals,
    ensures { AuditsOver (host_io_words S.forest S.failing D.forest W.contents)
        (failed_calls (FailsBetween D.System D.File.Handle.own D.File.Input D.Dir.Input)
        (LogFails W.writes F.puts parts.file))
        (audit_call options folders.entry.store.now folders.entry.folder.now)
        parts.host_io result.0 result.1 }
{
    let alloc = rt.alloc();
    let tally = Tally::new();
    let by = compare_by(options.quick);
    let watching = options
        .feedback
        .watching(words_of(options.extra, by), expected);
    let account = Account::new(watching, &options.feedback, &options.ignored, folders);
    let AuditSides { source, root, log } = open_sides(alloc, parts, options.ignored, folders);
    let (store, log) = account.watch(rt, &tally, source, log);
    let store = Traced::new(store);
    let root = SteppedFolder::new(root);
    let devices = ExtraDevices {
        store,
        root,
        log,
        explains: LastFailure,
    };
    let job = options.job;
    let end = audit(alloc, devices, AuditTask { job, by }, options.extra, &tally);
    conclude(rt, account, end, options.skips_ok)
}

// An audit that has ended over a store and a log that are watched.
type WatchedEnd<'w, 'a, R, S, D, W, F> = AuditEnd<
    Traced<Watched<Ignoring<HostSource<'a, S>>, Watch<'w, R>>>,
    SteppedFolder<'a, D>,
    CountedLog<DurableLog<W, F>>,
    LastFailure,
>;

// Ends what is shown of an audit, whose skip lines are well or not. Gives back what its devices
// were made over, and how it ended.
fn conclude<'a, R, S: System, D: System, W: Writes, F: SyncsOutput<W> + Drop>(
    rt: &R,
    account: Account<'a>,
    end: WatchedEnd<'_, 'a, R, S, D, W, F>,
    skips_ok: bool,
) -> (HostIo<S, D, W>, Conclusion)
where
    R: Reads + Clock + Eprint + AllocGlobal + Terminals,
    ensures store { result.0.store ≡ store_system end.entry.devices.store.source.source.source }
    ensures folder { result.0.folder ≡ store_system end.entry.devices.root.folder }
    ensures output { result.0.output ≡ end.entry.devices.log.log.writer }
    ensures status { result.1.status ≡ audit_status skips_ok end.entry.ran }
    ensures came { CameTo account.entry.watching.words (audit_totals end.entry.ran)
        result.1.outcome }
    ensures unmet { result.1.unmet ≡ end.entry.unmet }
{
    let AuditEnd {
        ran,
        unmet,
        devices,
    } = end;
    let ExtraDevices {
        store,
        root,
        log,
        ..
    } = devices;
    let store = store.into_source();
    let calls = LastCalls::of_root(root.folder());
    let (source, log, outcome) = account.close(rt, (store, log), ended(&ran), calls);
    let status = status_of(&ran, skips_ok);
    let host_io = HostIo {
        store: source.into_system(),
        folder: root.into_folder().into_system(),
        output: log.into_writer(),
    };
    let conclusion = Conclusion {
        status,
        outcome,
        unmet,
    };
    (host_io, conclusion)
}

// How an audit ended: by a fault, or with what it says itself of the lines.
fn ended(ran: &Result<AuditCounts, Fault>) -> Result<Totals, Fault>
    ensures { result ≡ audit_totals ran.now }
{
    match ran {
        Ok(told) => Ok(Totals::Audit(AuditTotals {
            same: told.counts.same,
            absent: told.counts.absent,
            differs: told.counts.differs,
            skips: told.counts.skipped,
            extra: told.numbers.extra,
            stray: told.numbers.stray,
        })),
        Err(fault) => Err(*fault),
    }
}

// What of files is compared.
fn compare_by(quick: bool) -> CompareBy
    ensures { result ≡ compare_by quick }
{
    if quick {
        CompareBy::Lengths
    } else {
        CompareBy::Bytes
    }
}

// Which lines its log has.
fn words_of(with_extras: bool, by: CompareBy) -> Words
    ensures { result ≡ words_with with_extras by }
{
    if with_extras {
        Words::BothWays(by)
    } else {
        Words::Audit(by)
    }
}

// The exit status of an audit, whose skip lines are well or not.
fn status_of(ran: &Result<AuditCounts, Fault>, skips_ok: bool) -> u8
    ensures { result ≡ audit_status skips_ok ran.now }
{
    match ran {
        Ok(told) if told.counts.absent > 0 || told.counts.differs > 0 => INCOMPLETE,
        Ok(told) if told.numbers.extra > 0 || told.numbers.stray > 0 => INCOMPLETE,
        Ok(told) if told.counts.skipped > 0 && !skips_ok => INCOMPLETE,
        Ok(_) => DONE,
        Err(_) => FAILED,
    }
}
