//! A survey of a store under way, made step by step: its sites and objects are looked at as a run
//! does, and nothing is made of them.
//!
//! It makes a run's own turns over a destination in which nothing stands, without those that make
//! something. After each step so many items of the store were seen as the definitions have
//! (`IsSurvey`); where the store tells, a step sees nothing more, or the next item: it only leads
//! on, or is passed over, and its line is put, or its object was scanned whole and is at hand
//! (`Sees`). What is at hand then are its identifier, its place and the rows and contents of all
//! its files, and what is stored of these stands in the source (`HasAtHand`).
//!
//! A step never blames or refuses a destination; it blames source and log exactly where they
//! failed, refuses a store only for what it is, and says that the survey has ended only at its end
//! (`SurveySays`). The source's tree is as it was, and what stood in the log stands. The store is
//! seen before its sites. A step calls the source at most once, twice where it reads the prefix, or
//! three times where it looks whether it is a store.
//!
//! Each step is counted, and there are no more than the limit. Where the store tells there are no
//! more than a survey's work (`work_of_survey`: as many as a run over no root makes turns at most,
//! where no identifier comes twice), so the limit is met only where it is less; and no more is held
//! after a step than a run's bound, within a run's numbers (`Steps`), and beside its phase the
//! fields of a run's state and nothing else: a survey is its phase and that state (`survey_of`).
#![tactic(auto, using(crate::proofs::SurveyRules::survey_rules))]

ghost use Rattle.std.specs.Option.{ForSome};
ghost use Rattle.std.specs.Prelude.{◌≡◌, ◌≢◌, true, length, Option, IfErr, IfOk, OnOk};
ghost use Rattle.std.specs.String.{string_bytes};
ghost use Rattle.pt_move.specs.Bounds.{most_calls};
ghost use Rattle.pt_move.specs.Running.{IsNew, TypeInvariant};
ghost use Rattle.pt_plan.specs.Answer.{phase_after};
ghost use Rattle.pt_audit.specs.Growing.{BlamesRightly, KeepsDevices, KeepsLog, KeepsTree, Leaves};
ghost use Rattle.pt_state.specs.Counting.{AtMostCalls};
ghost use Rattle.pt_state.specs.States.{IsUnmetAfter};
ghost use Rattle.pt_move.specs.Turning.{CountedTurn};
ghost use Rattle.pt_plan.specs.declared.phase.Phase.TheVariants as phase;
ghost use Rattle.pt_scan.specs.Blocks.{ReadsNext};
ghost use Rattle.pt_audit.specs.Files.{ComesTo, IsOpened, MakesStep};
ghost use Rattle.pt_audit.specs.SurveySteps.{BreaksOff, MovesOn, standing};
ghost use Rattle.pt_audit.specs.Surveying.{IsHand, IsReady, IsSurvey, SurveySays};
ghost use Rattle.pt_audit.specs.Surveying.{Surveys, bare_states, is_at_hand as is_at_hand_there};
ghost use Rattle.pt_audit.specs.Surveying.{is_looking, passed as passed_phase, sight_at};
ghost use Rattle.pt_audit.specs.Surveying.{unlogged_states};
ghost use Rattle.pt_audit.specs.declared.survey.SurveyEvent.TheVariants as sight;
ghost use Rattle.pt_tree.specs.Forest.{is_proper};
ghost use Rattle.pt_tree.specs.Source.{Reading, tree_in};
ghost use Rattle.pt_walk.specs.Trail.{trail_path};

use crate::auditing::ObjectsAudit;
use crate::compare_by::CompareBy;
use crate::counts::Counts;
use crate::empty_dest::{EmptyDest, NullLog};
use pt_move::turning::{new_state, turn};
use pt_move::{Job, Report};
use pt_object::{Contents, Rows};
use pt_plan::lines::ToldObject;
use pt_plan::{Fault, Opening, Part, Phase, Stage};
use pt_state::paths::entry_path;
use pt_state::{Devices, State, as_told};
use pt_tree::{Block, Log, MemoryFault, NamePath, Source};
use std::alloc::Global;
use std::marker::Model;
use std::mem;

/// What a step of a survey came to.
#[derive(Clone, Copy, Debug, PartialEq, Eq)]
pub enum SurveyEvent {
    /// There is more to see.
    More,
    /// It is a store with a good prefix; its sites come next.
    Store,
    /// The entries of an object are looked at.
    Scan,
    /// A file of the object was opened.
    Opened,
    /// A block of that file was read, and is held until the next step.
    Block,
    /// An object was scanned whole, and is at hand until the next step.
    Object,
    /// All was seen.
    End,
}

/// An object that was scanned whole: no entry of it is a cause against it.
#[derive(Drop)]
pub struct ObjectAtHand<'s> {
    /// The object, as a run's line would tell of it.
    pub told: ToldObject<'s>,
    /// Its files, in the order of their logical paths.
    pub rows: &'s Rows,
    /// Which of them are stored.
    pub contents: &'s Contents,
}

/// A file of an object that was opened.
#[derive(Drop)]
pub struct OpenedFile<'s> {
    /// The object's place in a storage root.
    pub place: &'s NamePath,
    /// The path of the file in the source, from below `pairtree_root` on.
    pub path: NamePath,
    /// How many names of the path lead to the object; the others are the logical path (OCFL 1.1,
    /// "Manifest").
    pub before: usize,
}

/// A survey of a store under way, seen as what a run holds.
#[derive(Drop)]
pub struct Survey {
    phase: Phase,
    state: State,
}

impl Model for Survey {
    ghost use Rattle.pt_move.specs.Running.{TypeInvariant, Running};

    ghost Value = { Running };

    ghost view = { λ m. record { phase = m.phase; state = m.state } };

    ghost invariant = { λ m. TypeInvariant (record { phase = m.phase; state = m.state }) };

    ghost use Rattle.pt_audit.specs.Surveys.{survey_of};

    ghost inverse = { survey_of };
}

impl Survey {
    /// A survey that is to begin. It calls nothing and takes no memory.
    pub fn start(alloc: Global, job: Job) -> Survey
        ensures new { IsNew job result }
        ensures begun { (told : Option Reading) → ForSome told (λ s. is_proper s.tree ≡ true)
            → IsSurvey told 0 result }
    {
        job.layout.count();
        Survey::fresh(alloc, job)
    }

    // Nothing is held, and nothing is counted.
    fn fresh(alloc: Global, job: Job) -> Survey
        ensures { IsNew job result }
    {
        Survey {
            phase: Phase::Opening(Opening::Begin),
            state: new_state(alloc, job),
        }
    }

    /// Makes one step, which is a turn of a run over a destination in which nothing stands, and
    /// calls the source no more often than that. What is passed over is told in the log as a run
    /// tells it; of an object nothing is told. A step that breaks off leaves no more of the log
    /// than a front of the line of what it passes over.
    ///
    /// It breaks off for `Source`, `Log`, `Memory`, `NotPairtree` and `Prefix` where a run halts
    /// for these. `Turns` is answered where the limit of turns has been made, and `Ended` where all
    /// was seen before or an earlier step broke off.
    pub fn step<S: Source, L: Log>(
        &mut self,
        source: &mut S,
        log: &mut L,
    ) -> Result<SurveyEvent, Fault>
        requires { Surveys (S.told source.old) self.old }
        ensures on { MovesOn (S.told source.old, L.told log.old) (S.told source.new, L.told log.new)
            self.old (λ sight. self.new) result }
        ensures came { IfOk result (ComesTo (S.told source.old) (S.told source.new)
            self.old self.new) }
        ensures source { KeepsTree S.told S.keeps source.old source.new
            × AtMostCalls (most_calls self.old.phase)
            (S.called source.old) (S.called source.new) }
        ensures log { KeepsLog L.told L.keeps log.old log.new }
        ensures blames { BlamesRightly (S.failed source.old) (S.failed source.new)
            (L.failed log.old) (L.failed log.new) result }
        ensures says { IfErr result (SurveySays self.old.state.job self.old.phase
            (tree_in (S.told source.old))) }
        ensures stops { BreaksOff (S.told source.old) self.old (L.told log.old) (L.told log.new)
            result }
    {
        let here = match mem::replace(&mut self.phase, Phase::Ended) {
            Phase::Ended | Phase::End => return Err(Fault::Ended),
            here => here,
        };
        if self.state.counts.turns >= self.state.job.limits.turns() {
            return Err(Fault::Turns);
        }
        self.phase = step_phase(&mut self.state, here, source, log)?;
        Ok(seen_at(&self.phase))
    }

    /// The object at hand, after the step that came to it; `Memory` where a growth was refused.
    pub fn at_hand(&self) -> Result<ObjectAtHand<'_>, MemoryFault>
        requires { sight_at self.now.phase ≡ sight.Object }
        ensures { IfOk result (IsHand self.now) }
    {
        match &self.phase {
            Phase::Carrying(object, Stage::Line) => Ok(ObjectAtHand {
                told: as_told(object, &self.state)?,
                rows: &self.state.rows,
                contents: &self.state.contents,
            }),
            _ => unreachable!(),
        }
    }

    /// The file that was opened, after the step that opened it; `Memory` where a growth was
    /// refused.
    pub fn opened_file(&self) -> Result<OpenedFile<'_>, MemoryFault>
        requires { sight_at self.now.phase ≡ sight.Opened }
        ensures { IfOk result (IsOpened self.now) }
    {
        match &self.phase {
            Phase::Carrying(object, Stage::Read(0)) => Ok(OpenedFile {
                place: &object.place,
                path: entry_path(&self.state.trail)?,
                before: object.names_before(),
            }),
            _ => unreachable!(),
        }
    }

    /// The block that was read of the open file.
    pub fn block(&self) -> &Block
        ensures { result.now ≡ self.now.state.block }
    {
        &self.state.block
    }

    /// How many files of the object are stored so far.
    pub fn stored_count(&self) -> usize
        ensures { result ≡ length self.now.state.contents }
    {
        self.state.contents.len()
    }

    /// The path of the directory that was listed last of those on the way, from below
    /// `pairtree_root` on: the site of the object at hand; `Memory` where a growth was refused.
    pub(crate) fn site(&self) -> Result<NamePath, MemoryFault>
        ensures { IfOk result (λ site. site ≡ trail_path self.now.state.trail) }
    {
        self.state.trail.path()
    }

    /// What each identifier begins with.
    pub(crate) fn prefix(&self) -> &str
        ensures { result.now ≡ string_bytes self.now.state.prefix }
    {
        self.state.prefix.as_str()
    }

    /// What an audit of these counts that compared by this gives back, once all was seen.
    pub(crate) fn into_audit(self, by: CompareBy, counts: Counts) -> ObjectsAudit
        ensures counts { (result.by ≡ by) × (result.counts ≡ counts) }
        ensures given { (result.job ≡ self.state.job) × (result.prefix ≡ self.state.prefix) }
        ensures unmet { result.unmet ≡ self.state.unmet }
    {
        let state = self.state;
        ObjectsAudit {
            counts,
            job: state.job,
            by,
            prefix: state.prefix,
            unmet: state.unmet,
        }
    }

    /// What it was asked for.
    pub fn job(&self) -> &Job
        ensures { result.now ≡ self.now.state.job }
    {
        &self.state.job
    }

    /// The lines of each kind whose `put` was answered Ok, the objects that were at hand, and the
    /// steps made.
    pub fn report(&self) -> Report
        ensures { result ≡ self.now.state.counts }
    {
        self.state.counts
    }
}

// Makes the turn of a phase, and gives the next one.
fn step_phase<S: Source, L: Log>(
    state: &mut State,
    here: Phase,
    source: &mut S,
    log: &mut L,
) -> Result<Phase, Fault>
    requires ready { IsReady (S.told source.old) here state.old }
    requires more { here ≢ phase.End }
    ensures on { MovesOn (S.told source.old, L.told log.old) (S.told source.new, L.told log.new)
        (standing here state.old) (λ next. standing next state.new) result }
    ensures well { TypeInvariant (record { phase = phase_after result; state = state.new }) }
    ensures leaves { Leaves (bare_states S.Source L.Log source.old log.old)
        (bare_states S.Source L.Log source.new log.new) state.old.job result }
    ensures made { IfOk result (λ next. MakesStep (S.told source.old) (S.told source.new)
        (standing here state.old) (standing next state.new)) }
    ensures keeps { KeepsDevices S.Source L.Log (most_calls here)
        (source.old, log.old) (source.new, log.new) }
    ensures stops { BreaksOff (S.told source.old) (standing here state.old)
        (L.told log.old) (L.told log.new) result }
{
    if is_at_hand(&here) {
        Ok(pass_making(pass(state, here, source)?))
    } else {
        Ok(pass_making(look(state, here, source, log)?))
    }
}

// Whether an object is at hand.
fn is_at_hand(here: &Phase) -> bool
    ensures { result ≡ is_at_hand_there here.now }
{
    matches!(here, Phase::Carrying(_, Stage::Line))
}

// Makes a turn that looks.
fn look<S: Source, L: Log>(
    state: &mut State,
    here: Phase,
    source: &mut S,
    log: &mut L,
) -> Result<Phase, Fault>
    requires ready { IsReady (S.told source.old) here state.old }
    requires looks { is_looking here ≡ true }
    ensures turn { CountedTurn here state.old state.new
        (bare_states S.Source L.Log source.old log.old)
        (bare_states S.Source L.Log source.new log.new) result }
    ensures block { ReadsNext here (S.told source.old) state.new.block.items result }
    ensures unmet { OnOk result (IsUnmetAfter here state.old state.new) }
    ensures source_stays { S.keeps source.old source.new
        × AtMostCalls (most_calls here) (S.called source.old) (S.called source.new) }
    ensures log_stays { L.keeps log.old log.new }
{
    turn(
        state,
        here,
        &mut Devices {
            source,
            dest: &mut EmptyDest,
            log,
        },
    )
}

// Passes the object at hand, of which nothing is told.
fn pass<S: Source>(state: &mut State, here: Phase, source: &mut S) -> Result<Phase, Fault>
    requires ready { IsReady (S.told source.old) here state.old }
    requires at_hand { is_at_hand_there here ≡ true }
    ensures turn { CountedTurn here state.old state.new
        (unlogged_states S.Source source.old) (unlogged_states S.Source source.new) result }
    ensures unmet { OnOk result (IsUnmetAfter here state.old state.new) }
    ensures source_stays { S.keeps source.old source.new
        × AtMostCalls (most_calls here) (S.called source.old) (S.called source.new) }
{
    turn(
        state,
        here,
        &mut Devices {
            source,
            dest: &mut EmptyDest,
            log: &mut NullLog,
        },
    )
}

// Where the survey goes on that a run would make something.
fn pass_making(next: Phase) -> Phase
    ensures { result ≡ passed_phase next }
{
    match next {
        Phase::Opening(Opening::Staging) => Phase::Opening(Opening::OpenRoot),
        Phase::Carrying(object, Stage::Make(Part::Staging)) => Phase::Carrying(object, Stage::Line),
        next => next,
    }
}

// What is seen at a phase.
fn seen_at(here: &Phase) -> SurveyEvent
    ensures { result ≡ sight_at here.now }
{
    match here {
        Phase::Opening(Opening::OpenRoot) => SurveyEvent::Store,
        Phase::Carrying(_, Stage::Scan) => SurveyEvent::Scan,
        Phase::Carrying(_, Stage::Read(0)) => SurveyEvent::Opened,
        Phase::Carrying(_, Stage::Read(_)) => SurveyEvent::Block,
        Phase::Carrying(_, Stage::Line) => SurveyEvent::Object,
        Phase::End => SurveyEvent::End,
        _ => SurveyEvent::More,
    }
}
