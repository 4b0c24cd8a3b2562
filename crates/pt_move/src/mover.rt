//! A run under way, made turn by turn.
//!
//! Of a step: `Turns` is answered exactly where the limit of turns was made before the end, `Ended`
//! exactly after the end or a fault; at both the three devices are the very values that they were.
//!
//! In one turn the trail enters at most one listing or leaves inner ones (`Moves`), rows and
//! contents gain at most one record or are emptied (`Gains`), and at most one line is counted. The
//! source is called at most once, twice where the prefix is read, or three times where the run
//! looks whether it is a store. What stands in the destination is asked at most once, twice where a
//! file of the root is compared, four times where that is the layout's configuration, and in most
//! turns never (`most_looks`).
ghost use Rattle.std.specs.Prelude.{◌≡◌, ◌+◌, length};
ghost use Rattle.pt_invariant.specs.RunInvariant.{AreStates, start_of};
ghost use Rattle.pt_name.specs.Tuples.{IsLayout};
ghost use Rattle.pt_plan.specs.DeviceStates.{DeviceStates};
ghost use Rattle.pt_state.specs.Counting.{AtMostCalls};
ghost use Rattle.pt_plan.specs.SourceFailures.{FailsOnlyWhereAsked};
ghost use Rattle.pt_state.specs.Outside.{states_of};
ghost use Rattle.pt_state.specs.SourceFailures.{source_view};
ghost use Rattle.pt_walk.specs.Trail.{entries_held};
ghost use Rattle.pt_move.specs.Bounds.{most_looks};
ghost use Rattle.pt_move.specs.Promises.{TakesStep};
ghost use Rattle.pt_move.specs.Running.{BeganSomewhere, HasBegun, IsBegun, IsNew, TypeInvariant};
ghost use Rattle.pt_move.specs.Stepping.{Any, SameDevice, most_calls_at};

use crate::migration::Completion;
use crate::turning::{new_state, turn};
use pt_plan::{Fault, Opening, Phase};
use pt_state::{Devices, Io, Job, Report, State};
use pt_tree::{Dest, Log, Source};
use std::alloc::Global;
use std::marker::Model;
use std::mem;

/// Whether a run goes on after a step.
#[derive(Clone, Copy, Debug, PartialEq, Eq)]
pub enum Turn {
    /// There is more to do.
    More,
    /// It was the last one.
    Finished,
}

/// A run under way, seen as what it holds. Beside the block that was read last it holds the
/// listings from `pairtree_root` to where it stands, and the rows and contents of the object that
/// it is at.
#[derive(Drop)]
pub struct Mover {
    pub(crate) phase: Phase,
    pub(crate) state: State,
}

impl Model for Mover {
    ghost use Rattle.pt_move.specs.Running.{TypeInvariant, Running};

    ghost Value = { Running };

    ghost view = { λ m. record { phase = m.phase; state = m.state } };

    ghost invariant = { λ m. TypeInvariant (record { phase = m.phase; state = m.state }) };

    ghost use Rattle.pt_move.specs.Movers.{mover_of};

    ghost inverse = { mover_of };
}

impl Mover {
    /// A run that is to begin. It calls nothing and takes no memory. Over any devices it is then in
    /// progress, from what they hold as they stand.
    pub fn start(alloc: Global, job: Job) -> Mover
        ensures new { IsNew job result }
        ensures layout { IsLayout job.layout }
        ensures begun { (states : DeviceStates) → HasBegun states result }
        ensures in_progress { (states : DeviceStates) → AreStates states
            → IsBegun (start_of states) states result }
    {
        // (`count` says for the proof what holds of each layout, a type of another crate)
        job.layout.count();
        Mover::fresh(alloc, job)
    }

    // Nothing is held, and nothing is counted.
    fn fresh(alloc: Global, job: Job) -> Mover
        ensures { IsNew job result }
    {
        Mover {
            phase: Phase::Opening(Opening::Begin),
            state: new_state(alloc, job),
        }
    }

    /// Makes one turn. `Finished` is answered where it was the last one. A fault ends the run:
    /// every step after it answers `Ended`, and so does every step after `Finished`. `Turns` is
    /// answered where the limit of turns has been made; neither it nor `Ended` is a turn, and
    /// neither calls anything.
    ///
    /// `Source`, `Dest` and `Log` are answered only where that device's count of failures rose, or
    /// stood at its greatest value, and then no other answer is given; each of the faults 4 to 9
    /// comes where its variant of `Fault` says.
    ///
    /// The three devices have to be those of the earlier steps, as those left them, if they tell
    /// what they hold: then the run is still in progress, from the start at which it began. Each
    /// stays the device that it is, as its calls keep it.
    pub fn step<S: Source, D: Dest, L: Log>(
        &mut self,
        source: &mut S,
        dest: &mut D,
        log: &mut L,
    ) -> Result<Turn, Fault>
        requires { HasBegun (states_of S.Source D.Dest L.Log source.old dest.old log.old) self.old }
        ensures step { TakesStep (states_of S.Source D.Dest L.Log source.old dest.old log.old)
            (states_of S.Source D.Dest L.Log source.new dest.new log.new) self.old self.new result }
        ensures calls { AtMostCalls (most_calls_at self.old)
            (S.called source.old) (S.called source.new)
            × AtMostCalls (most_looks self.old.phase) (D.looked dest.old) (D.looked dest.new) }
        ensures source_stays { SameDevice S.keeps result source.old source.new }
        ensures source_fails { FailsOnlyWhereAsked (source_view S.Source source.old)
            (source_view S.Source source.new) }
        ensures dest_stays { SameDevice D.keeps result dest.old dest.new }
        ensures log_stays { SameDevice L.keeps result log.old log.new }
    {
        self.advance(&mut Devices { source, dest, log })
    }

    // Makes one turn over the devices as one.
    pub(crate) fn advance<O: Io>(&mut self, out: &mut O) -> Result<Turn, Fault>
        requires { HasBegun (O.states out.old) self.old }
        ensures step { TakesStep (O.states out.old) (O.states out.new) self.old self.new result }
        ensures calls { O.within (most_calls_at self.old) (most_looks self.old.phase)
            out.old out.new }
        ensures stays { SameDevice Any result out.old out.new }
    {
        self.begins(out);
        let phase = match mem::replace(&mut self.phase, Phase::Ended) {
            Phase::Ended => return Err(Fault::Ended),
            phase => phase,
        };
        if self.state.counts.turns >= self.state.job.limits.turns() {
            return Err(Fault::Turns);
        }
        match turn(&mut self.state, phase, out)? {
            Phase::Ended => Ok(Turn::Finished),
            next => {
                self.phase = next;
                Ok(Turn::More)
            }
        }
    }

    // Where the run is to begin, it begins at these devices as they stand. The proof of that needs
    // what `count` says of the job's layout.
    fn begins<O: Io>(&self, out: &O)
        requires { HasBegun (O.states out.now) self.now }
        ensures { BeganSomewhere (O.states out.now) self.now }
    {
        self.state.job.layout.count();
    }

    /// How many records it holds: the entries of the trail's listings, the rows and the contents
    /// together.
    pub fn records(&self) -> u128
        ensures { result ≡ entries_held self.now.state.trail
            + length self.now.state.rows + length self.now.state.contents }
    {
        self.state.trail.records()
            + self.state.rows.len() as u128
            + self.state.contents.len() as u128
    }

    /// What it came to, where it was the last step that was made.
    pub(crate) fn into_completion(self) -> Completion
        ensures report { result.report ≡ self.state.counts }
        ensures unmet { result.unmet ≡ self.state.unmet }
        ensures well { TypeInvariant self }
    {
        let report = self.report();
        let state = self.state;
        Completion {
            report,
            unmet: state.unmet,
        }
    }

    /// The lines of each kind whose `put` was answered Ok, and the turns made, a faulty one among
    /// them. The counts never overflow.
    pub fn report(&self) -> Report
        ensures counts { result ≡ self.now.state.counts }
        ensures well { TypeInvariant self.now }
    {
        self.state.counts
    }
}
