//! A whole run.
//!
//! What it promises of the three devices is `MigratesOver`: by what they tell `Migrates`; that each
//! stays; and of a source that tells where it fails, that if a call of it failed, it did so at what
//! a run asks for, or at the file that was open (`FailsOnlyWhereAsked` of pt_plan). Each step
//! promises the same.
ghost use Rattle.std.specs.Prelude.{IfOk, ℕ};
ghost use Rattle.pt_move.specs.Migrates.{Migrates};
ghost use Rattle.pt_move.specs.MigratesOver.{MigratesOver};
ghost use Rattle.pt_move.specs.Unmet.{LeavesUnmet, report_of};
ghost use Rattle.pt_state.specs.Outside.{states_of};

use crate::{Fault, Mover, NoObserver, Observer, Turn};
use pt_name::UnmetIdentifiers;
use pt_state::{Devices, Io, Job, Report};
use pt_tree::{Dest, Log, Source};
use std::alloc::Global;

/// Carries the objects of a Pairtree store (Pairtree 0.1) into the storage root of a destination
/// (OCFL 1.1), and tells of each in the log. The run goes on to its end or to its first fault,
/// whatever the three hold, and makes at most as many turns as its limit allows.
///
/// What it leaves and says is promised where the devices tell what they hold: at its end the root
/// with all objects that are carried, each whole, and the log of all items (`ends`, `states`);
/// however it ends, destination and log such as a fault may leave, and what stood stands (`left`,
/// `early`, `leaves`, `stands`); that each refusal is true, and over a good start none comes
/// (`says`, `good`); turns within the store's work (`work`).
///
/// `Source`, `Dest` and `Log` are answered only where that device's count of failures rose, or
/// stood at its greatest value, and then no other answer is given; `Ended` is never answered. Each
/// other fault comes where its variant of `Fault` says. Each device stays the one that it is, as
/// its calls keep it. Where the source's count of failures changed, and it tells where it fails, it
/// does so at its top, the file of its prefix, or something at `pairtree_root` or below, or at the
/// file that was open in it before (`source_fails` of `MigratesOver`).
pub fn migrate<S: Source, D: Dest, L: Log>(
    alloc: Global,
    source: &mut S,
    dest: &mut D,
    log: &mut L,
    job: Job,
) -> Result<Report, Fault>
    ensures { MigratesOver S.Source D.Dest L.Log job
        ((source.old, dest.old, log.old), (source.new, dest.new, log.new)) result }
{
    match migrate_observed(alloc, source, dest, log, job, &NoObserver) {
        Ok(completion) => Ok(completion.report),
        Err(fault) => Err(fault),
    }
}

/// What a run came to that came to its end.
#[derive(Drop)]
pub struct Completion {
    /// Its lines of each kind, and the turns that it made.
    pub report: Report,
    /// The identifiers of the share's list of which it met no object.
    pub unmet: UnmetIdentifiers,
}

/// A run as `migrate` makes it, and with all that is promised of that. At its end it says too of
/// which identifiers of the list no object was met: of just those that no site of the store with an
/// object reads (`LeavesUnmet`). The observer gets the run's report after each turn that isn't the
/// last one or a faulty one; it has no part in what the run does.
pub fn migrate_observed<S: Source, D: Dest, L: Log, O: Observer<Report>>(
    alloc: Global,
    source: &mut S,
    dest: &mut D,
    log: &mut L,
    job: Job,
    observer: &O,
) -> Result<Completion, Fault>
    ensures run { MigratesOver S.Source D.Dest L.Log job
        ((source.old, dest.old, log.old), (source.new, dest.new, log.new)) (report_of result) }
    ensures unmet { IfOk result (LeavesUnmet job
        (states_of S.Source D.Dest L.Log source.old dest.old log.old)
        (states_of S.Source D.Dest L.Log source.new dest.new log.new)) }
{
    run(alloc, &mut Devices { source, dest, log }, job, observer)
}

// Makes the turns of a run to its end, or to its first fault.
fn run<O: Io, W: Observer<Report>>(
    alloc: Global,
    out: &mut O,
    job: Job,
    observer: &W,
) -> Result<Completion, Fault>
    ensures run { Migrates job (O.states out.old) (O.states out.new) (report_of result) }
    ensures unmet { IfOk result (LeavesUnmet job (O.states out.old) (O.states out.new)) }
    ensures same { (n k : ℕ) × O.within n k out.old out.new }
{
    let mut mover = Mover::start(alloc, job);
    loop {
        match mover.advance(out) {
            Ok(Turn::More) => observer.observe(mover.report()),
            Ok(Turn::Finished) => break Ok(mover.into_completion()),
            Err(fault) => break Err(fault),
        }
    }
}
