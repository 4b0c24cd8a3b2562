//! What a caller knows where a whole run is answered Ok.
ghost use Rattle.std.specs.Prelude.{◌≡◌, ◌≤◌, true, IfOk};
ghost use Rattle.pt_invariant.specs.RunInvariant.{start_of};
ghost use Rattle.pt_move.specs.Outcome.{EndsWhole};
ghost use Rattle.pt_tree.specs.Source.{tree_in};
ghost use Rattle.pt_state.specs.Outside.{states_of};
ghost use Rattle.pt_state.specs.declared.job.Report.{Report};

use crate::{Fault, Job, migrate};
use pt_tree::{Dest, Log, Source};
use std::alloc::Global;

/// Whether a run came to its end: then, where all three tell, the root holds all objects that are
/// carried, each whole, nothing else is changed, and the log has all lines.
pub fn carries_all<S: Source, D: Dest, L: Log>(
    alloc: Global,
    source: &mut S,
    dest: &mut D,
    log: &mut L,
    job: Job,
) -> bool
    ensures { result ≡ true → (report : Report) × EndsWhole job (tree_in (S.told source.old))
        (start_of (states_of S.Source D.Dest L.Log source.old dest.old log.old))
        (D.told dest.new) (L.told log.new) report }
{
    match migrate(alloc, source, dest, log, job) {
        Ok(_) => true,
        Err(_) => false,
    }
}

/// How many lines a run told before its end line. Whatever the devices are, and though they tell
/// nothing, they are no more than its limit of turns. The faults are those of `migrate`.
pub fn lines_told<S: Source, D: Dest, L: Log>(
    alloc: Global,
    source: &mut S,
    dest: &mut D,
    log: &mut L,
    job: Job,
) -> Result<u64, Fault>
    ensures { IfOk result (λ lines. lines ≤ job.limits.turns) }
{
    let report = migrate(alloc, source, dest, log, job)?;
    Ok(report.done + report.present + report.skipped)
}
