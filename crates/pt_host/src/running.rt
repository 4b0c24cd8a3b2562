//! A run over its devices, and what it came to.
//!
//! What a run over its devices comes to is `RunsOn`. A run is one over the destination's folder,
//! and a rehearsal one over a destination that at first tells what the folder holds, and at the end
//! the tree that it plays (`run_or_rehearse`, `IsRun`). Its devices stay at the folders that they
//! were made for (`RunsFrom`). After any answer a rehearsal leaves all that the system keeps of
//! DEST (`LeavesKept`). Something is unsynced at the end only where syncing was wanted and a fault
//! ended the run (`IsUnsyncedBy`). Over a store whose system tells where it fails the source failed
//! only at what a run asks for (`FailsByAsking`). The log is blamed only where a piece of it
//! couldn't be put (`LogFailsBy`).
ghost use Rattle.std.specs.Prelude.{◌≡◌, IfOk, OnOk};
ghost use Rattle.pt_audit.specs.Auditing.{AreUnmetIn};
ghost use Rattle.pt_folder.specs.HostDest.{kept_by};
ghost use Rattle.pt_host.specs.Devices.{told_at_rest};
ghost use Rattle.pt_host.specs.Ends.{run_status};
ghost use Rattle.pt_host.specs.Machine.{host_io_words};
ghost use Rattle.pt_host.specs.Made.{IsRun, IsSameSource, IsUnsyncedBy, LeavesKept};
ghost use Rattle.pt_host.specs.Running.{RunsOn};
ghost use Rattle.pt_host.specs.Served.{IsServed};
ghost use Rattle.pt_host.specs.Totals.{run_totals};
ghost use Rattle.pt_host.specs.declared.options.AllowedLines.{AllowedLines};
ghost use Rattle.pt_move.specs.Unmet.{report_of};
ghost use Rattle.pt_state.specs.Outside.{states_of};
ghost use Rattle.pt_tree.specs.Source.{tree_in};

use crate::account::Account;
use crate::devices::RunDevices;
use crate::durable_log::{SyncsOutput, Writes};
use crate::folders::Folders;
use crate::operation::Conclusion;
use crate::status::{DONE, FAILED, INCOMPLETE};
use crate::{AllowedLines, HostIo, RunOptions};
use pt_folder::{HostDest, System};
use pt_messages::{LastCalls, Reads, RunTotals, Tally, Terminals, Totals, Words};
use pt_move::{Completion, Fault, Job, Report, migrate_observed};
use pt_name::UnmetIdentifiers;
use pt_rehearsal::Rehearsal;
use pt_tree::{Dest, Ignoring, Log, Source};
use std::alloc::{AllocGlobal, Global};
use std::rt::Clock;

/// Makes the run that is asked for over its devices, or rehearses it, watched as its options say.
/// `expected` is how many lines its log may come to, where that is known, and `folders` has the
/// paths that are told. Gives back what the devices were made over, and how the run ended.
pub(crate) fn run_over<R, S: System, D: System, W: Writes, F: SyncsOutput<W> + Drop>(
    rt: &R,
    devices: RunDevices<'_, S, D, W, F>,
    options: RunOptions,
    expected: Option<u64>,
    folders: Folders<'_>,
) -> (HostIo<S, D, W>, Conclusion)
where
    R: Reads + Clock + Eprint + AllocGlobal + Terminals,
    ensures { RunsOn (host_io_words S.forest S.failing D.kept W.contents) W.writes F.puts options
        devices.entry result }
{
    let tally = Tally::new();
    let RunDevices { source, dest, log } = devices;
    let watching = options.feedback.watching(Words::Run, expected);
    let account = Account::new(watching, &options.feedback, &options.ignored, folders);
    let ignoring = Ignoring::new(source, options.ignored);
    let (mut source, mut log) = account.watch(rt, &tally, ignoring, log);
    let task = Task {
        job: options.job,
        rehearse: options.rehearse,
        tally: &tally,
    };
    let made = run_or_rehearse(rt.alloc(), &mut source, dest, &mut log, task);
    let RunEnd { ran, unmet, dest } = made;
    let calls = LastCalls::of_dest(&dest);
    let (source, log, outcome) = account.close(rt, (source, log), ended(&ran), calls);
    let status = status_of(&ran, options.allowed);
    let host_io = HostIo {
        store: source.into_system(),
        folder: dest.into_system(),
        output: log.into_writer(),
    };
    let conclusion = Conclusion {
        status,
        outcome,
        unmet,
    };
    (host_io, conclusion)
}

// What a run has to do: its job, whether it is only rehearsed, and what is told after each turn how
// far it is.
struct Task<'t> {
    job: Job,
    rehearse: bool,
    tally: &'t Tally,
}

// What a run came to, which identifiers of its list it left unmet, none after a fault, and its
// destination.
#[derive(Drop)]
struct RunEnd<'a, D: System> {
    ran: Result<Report, Fault>,
    unmet: UnmetIdentifiers,
    dest: HostDest<'a, D>,
}

// Makes a run, or rehearses it.
fn run_or_rehearse<'a, S: Source, D: System, L: Log>(
    alloc: Global,
    source: &mut S,
    dest: HostDest<'a, D>,
    log: &mut L,
    task: Task<'_>,
) -> RunEnd<'a, D>
    ensures promises { IsRun task.entry.job task.entry.rehearse (told_at_rest dest.entry)
        (states_of S.Source ⟦<HostDest<'a, D> as Dest>⟧ L.Log source.old dest.entry log.old)
        (states_of S.Source ⟦<HostDest<'a, D> as Dest>⟧ L.Log source.new result.dest log.new)
        result.ran }
    ensures unmet { OnOk result.ran
        (AreUnmetIn task.entry.job (tree_in (S.told source.old)) result.unmet) }
    ensures source { IsSameSource S.Source source.old source.new }
    ensures log { L.keeps log.old log.new }
    ensures dest { result.dest.folder ≡ dest.entry.folder }
    ensures served { IsServed task.entry.rehearse dest.entry result.dest }
    ensures unsynced { (allowed : AllowedLines) → IsUnsyncedBy dest.entry.synced dest.entry.failures
        (run_status allowed result.ran) result.dest.unsynced }
    ensures rehearsed { LeavesKept task.entry.rehearse (kept_by dest.entry) (kept_by result.dest) }
{
    let Task {
        job,
        rehearse,
        tally,
    } = task;
    if rehearse {
        let mut rehearsal = Rehearsal::new(alloc, dest);
        let ran = migrate_observed(alloc, source, &mut rehearsal, log, job, tally);
        let dest = rehearsal.into_dest();
        return end_of(alloc, ran, dest);
    }
    let mut dest = dest;
    let ran = migrate_observed(alloc, source, &mut dest, log, job, tally);
    end_of(alloc, ran, dest)
}

// The end of a run that came to this over a destination.
fn end_of<D: System>(
    alloc: Global,
    ran: Result<Completion, Fault>,
    dest: HostDest<'_, D>,
) -> RunEnd<'_, D>
    ensures ran { result.ran ≡ report_of ran }
    ensures unmet { IfOk ran (λ completion. result.unmet ≡ completion.unmet) }
    ensures dest { result.dest ≡ dest.entry }
{
    match ran {
        Ok(completion) => RunEnd {
            ran: Ok(completion.report),
            unmet: completion.unmet,
            dest,
        },
        Err(fault) => RunEnd {
            ran: Err(fault),
            unmet: UnmetIdentifiers::none(alloc),
            dest,
        },
    }
}

// How a run ended: by a fault, or with what its report says of the lines.
fn ended(ran: &Result<Report, Fault>) -> Result<Totals, Fault>
    ensures { result ≡ run_totals ran.now }
{
    match ran {
        Ok(report) => Ok(Totals::Run(RunTotals {
            done: report.done,
            present: report.present,
            skips: report.skipped,
        })),
        Err(fault) => Err(*fault),
    }
}

// The exit status of a run, whose log may have these lines.
fn status_of(ran: &Result<Report, Fault>, allowed: AllowedLines) -> u8
    ensures { result ≡ run_status allowed ran.now }
{
    match ran {
        Ok(report) if report.skipped > 0 && !allowed.skips => INCOMPLETE,
        Ok(report) if report.present > 0 && !allowed.present => INCOMPLETE,
        Ok(_) => DONE,
        Err(_) => FAILED,
    }
}
