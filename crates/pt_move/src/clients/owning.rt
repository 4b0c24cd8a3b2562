//! A run that owns its devices.
ghost use Rattle.std.specs.Prelude.{◌≡◌, None};
ghost use Rattle.pt_invariant.specs.RunInvariant.{Start};
ghost use Rattle.pt_move.specs.Holding.{GoesOn, IsMost};
ghost use Rattle.pt_move.specs.Promises.{TakesStep};
ghost use Rattle.pt_move.specs.Running.{HasBegun, IsNew};
ghost use Rattle.pt_state.specs.Outside.{states_of};
ghost use Rattle.pt_tree.specs.Forest.{Forest};

use crate::{Fault, Job, Mover, Turn};
use pt_tree::{Dest, Log, Source};
use std::alloc::Global;

/// The most of a run, after any of its turns.
#[derive(Clone, Copy, Debug, PartialEq, Eq)]
pub struct Most {
    /// The records that it held.
    pub records: u128,
    /// The turns that it had made.
    pub turns: u64,
}

/// A run under way with its source, destination and log, which nobody else can change between two
/// steps.
#[derive(Drop)]
pub struct Run<S: Source, D: Dest, L: Log> {
    mover: Mover,
    source: S,
    dest: D,
    log: L,
}

impl<S: Source, D: Dest, L: Log> Run<S, D, L> {
    /// A run that is to begin over these devices. It calls nothing.
    pub fn new(alloc: Global, source: S, dest: D, log: L, job: Job) -> Run<S, D, L>
        ensures mover { IsNew job result.mover }
        ensures source { result.source ≡ source }
        ensures dest { result.dest ≡ dest }
        ensures log { result.log ≡ log }
        ensures begun { HasBegun (states_of S.Source D.Dest L.Log source dest log) result.mover }
    {
        Run {
            mover: Mover::start(alloc, job),
            source,
            dest,
            log,
        }
    }

    /// Makes one turn, with all that a step promises: from whatever start it is in progress, it
    /// keeps the promises of the run so far. What it asks for holds of a new run, and after each
    /// step. The faults are those of `Mover::step`.
    pub fn step(&mut self) -> Result<Turn, Fault>
        requires { HasBegun
            (states_of S.Source D.Dest L.Log self.old.source self.old.dest self.old.log)
            self.old.mover }
        ensures step { TakesStep
            (states_of S.Source D.Dest L.Log self.old.source self.old.dest self.old.log)
            (states_of S.Source D.Dest L.Log self.new.source self.new.dest self.new.log)
            self.old.mover self.new.mover result }
    {
        self.mover
            .step(&mut self.source, &mut self.dest, &mut self.log)
    }

    /// Makes so many turns, unless the run ends before: whether there is more to do.
    /// The fault of the first turn that has one is answered, as `step` does.
    pub fn make_steps(&mut self, most: u64) -> Result<bool, Fault>
        requires { HasBegun
            (states_of S.Source D.Dest L.Log self.old.source self.old.dest self.old.log)
            self.old.mover }
        ensures { HasBegun
            (states_of S.Source D.Dest L.Log self.new.source self.new.dest self.new.log)
            self.new.mover }
    {
        for _ in 0..most {
            if let Turn::Finished = self.step()? {
                return Ok(false);
            }
        }
        Ok(true)
    }

    /// Makes so many turns, unless the run ends before, and gives the most that was held and made
    /// after one of them. From whatever start the run is in progress: where the source tells, what
    /// was held is within the bound of the source; where the destination told too, the turns are
    /// within the work.
    pub fn measure_steps(&mut self, turns: u64) -> Most
        requires { HasBegun
            (states_of S.Source D.Dest L.Log self.old.source self.old.dest self.old.log)
            self.old.mover }
        ensures { (start : Start) (s : Forest) → GoesOn start s self.old.mover.state.job
            (states_of S.Source D.Dest L.Log self.old.source self.old.dest self.old.log)
            self.old.mover → IsMost self.old.mover.state.job start s result.records result.turns }
    {
        let mut most = Most {
            records: 0,
            turns: 0,
        };
        for _ in 0..turns {
            let Ok(turn) = self.step() else {
                return most;
            };
            most = Most {
                records: most.records.max(self.mover.records()),
                turns: self.mover.report().turns,
            };
            if turn == Turn::Finished {
                return most;
            }
        }
        most
    }

    /// The run with another log, and the one that it had, where neither tells what it holds: it is
    /// in progress as before, however often the two failed.
    pub fn with_log<M: Log>(self, log: M) -> (Run<S, D, M>, L)
        requires begun { HasBegun (states_of S.Source D.Dest L.Log self.source self.dest self.log)
            self.mover }
        requires silent { L.told self.log ≡ None }
        requires other_silent { M.told log ≡ None }
        ensures { HasBegun
            (states_of S.Source D.Dest M.Log result.0.source result.0.dest result.0.log)
            result.0.mover }
    {
        let run = Run {
            mover: self.mover,
            source: self.source,
            dest: self.dest,
            log,
        };
        (run, self.log)
    }

    /// The devices as the run left them.
    pub fn into_devices(self) -> (S, D, L)
        ensures source { result.0 ≡ self.source }
        ensures dest { result.1 ≡ self.dest }
        ensures log { result.2 ≡ self.log }
    {
        (self.source, self.dest, self.log)
    }
}
