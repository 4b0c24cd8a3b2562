//! A run that is made anew after each fault.
ghost use Rattle.std.specs.Prelude.{◌≡◌, true, IfSome, Some};
ghost use Rattle.pt_move.specs.Mending.{MayEndAs, TakesStaging, undisturbed};
ghost use Rattle.pt_plan.specs.Job.{Job as Plan};
ghost use Rattle.pt_plan.specs.DeviceStates.{dest_tree};
ghost use Rattle.pt_state.specs.Outside.{states_of};
ghost use Rattle.pt_state.specs.States.{job_of};
ghost use Rattle.pt_tree.specs.Forest.{Forest};
ghost use Rattle.pt_tree.specs.Tree.{Tree};

use crate::{Job, migrate};
use pt_tree::{Dest, Log, Source};
use std::alloc::Global;

/// A destination in which what a fault left can be taken away.
pub trait Mendable: Dest {
    /// Takes away what stands at `staging`, with all below; whether that was done, or nothing stood
    /// there.
    fn take_staging_away(&mut self) -> bool
        ensures { result ≡ true → TakesStaging (Self.told self.old) (Self.told self.new) };
}

/// Makes the same job for each run.
pub trait Jobs {
    /// The job.
    ghost job: { Self → Plan };

    /// The job once more; None where that can't be made.
    fn next(&mut self) -> Option<Job>
        ensures made { IfSome result (λ made. job_of made ≡ job self.old) }
        ensures same { job self.new ≡ job self.old };
}

/// The same job for each of so many runs.
#[derive(Drop)]
pub struct Attempts<J> {
    /// What makes the job of each run.
    pub jobs: J,
    /// How many runs are made at most.
    pub tries: u32,
}

/// Makes a run, and after each fault takes `staging` away and makes another, so many in all:
/// whether one came to its end. Whatever faults there were, and wherever they came: where all three
/// tell and a run could end well, the destination then holds what one undisturbed run leaves.
pub fn carry_through<S: Source, D: Mendable, L: Log, J: Jobs + Drop>(
    alloc: Global,
    source: &mut S,
    dest: &mut D,
    log: &mut L,
    attempts: Attempts<J>,
) -> bool
    ensures { (s : Forest) (start : Tree) → MayEndAs (J.job attempts.jobs) s start
        (states_of S.Source D.Dest L.Log source.old dest.old log.old)
        → result ≡ true
        → dest_tree (D.Dest.told dest.new) ≡ Some (undisturbed (J.job attempts.jobs) s start) }
{
    let Attempts { mut jobs, tries } = attempts;
    for _ in 0..tries {
        let Some(job) = jobs.next() else {
            return false;
        };
        if let Ok(_) = migrate(alloc, source, dest, log, job) {
            return true;
        }
        if !dest.take_staging_away() {
            return false;
        }
    }
    false
}
