//! A whole audit.
//!
//! Of what is passed over what is told is a run's line; of an object what was found at its place,
//! which is so (`IsFoundOf`), by bytes or by lengths (`IsFoundBy`). The object of each item is told
//! of, also a second one of an identifier. After a fault the log has got a front of what is told of
//! the first items, or of all with the end line (`StopsAs`). `audit_objects` is for who has more to
//! tell before the end line: after all items the log has got just what is told of them
//! (`IsAllTold`), after a fault a front of what is told of the first (`TellsItems`); and the job,
//! by what it compared, and the prefix are given back (`GivesBack`).
//!
//! The limit of turns is met only where it is less than a survey's work, and of what else is in the
//! destination nothing is refused; that it has ended already is never answered (`AuditSays`). It is
//! made by steps of a survey, to the survey's end where it answers Ok (`IsMade`); what is held of
//! the survey after each is what a survey's step says, and beside it an audit holds the fields that
//! are listed (`AuditFields`). The end line has the counts of the lines.
ghost use Rattle.std.specs.Prelude.{◌≡◌, IfErr, IfOk, OnErr, OnOk, Option};
ghost use Rattle.pt_audit.specs.AuditSteps.{Begins, FailsRightly, KeepsAll, LeavesRoot, SeesStep};
ghost use Rattle.pt_audit.specs.AuditSteps.{StepsOn, TellsObject, TellsStep};
ghost use Rattle.pt_audit.specs.AuditSteps.{audit_states};
ghost use Rattle.pt_audit.specs.Auditing.{AreUnmetIn, FrontToldAs, GivesBack, HasSeenAll};
ghost use Rattle.pt_audit.specs.Auditing.{IsFoundAtHand, IsTwinAtHand, LogsAs, TellsItems};
ghost use Rattle.pt_audit.specs.Auditing.{counted, last_text, start_over};
ghost use Rattle.pt_audit.specs.declared.counts.Counts.{Counts};
ghost use Rattle.std.specs.Option.{ForSome};
ghost use Rattle.std.specs.Io.KnownBytes.{Appends};
ghost use Rattle.pt_tree.specs.Log.{AppendsFront};
ghost use Rattle.pt_audit.specs.RootReader.{CanFollow, Follows, FollowsOn, IsBehind, IsPaced};
ghost use Rattle.pt_audit.specs.RootReader.{Saw};
ghost use Rattle.pt_audit.specs.Bounds.{IsMade, IsMadeFrom, counts_at_end, counts_in};
ghost use Rattle.pt_audit.specs.Failing.{AuditSays, BlamesRightly, FailsAs, ReadFailsAs};
ghost use Rattle.pt_audit.specs.Failing.{failures};
ghost use Rattle.pt_audit.specs.Layout.{IsOfLayout};
ghost use Rattle.pt_compare.specs.Root.{KeepsRoot};
ghost use Rattle.pt_tree.specs.Source.{Reading, tree_in};
ghost use Rattle.pt_state.specs.States.{job_of};
ghost use Rattle.pt_audit.specs.Growing.{KeepsLog};
ghost use Rattle.pt_audit.specs.Surveying.{IsHand, Surveys, sight_at};
ghost use Rattle.pt_audit.specs.declared.survey.SurveyEvent.TheVariants as sight;

use crate::layout::check_layout;
use crate::lines::{end_line, object_line};
use crate::root_reader::RootReader;
use crate::survey::{ObjectAtHand, Survey, SurveyEvent};
use crate::twin::{is_second, skip_prefix};
use crate::{AuditTask, CompareBy, Counts};
use pt_compare::{Comparison, ScannedObject, compare};
use pt_move::{Job, Observer};
use pt_name::UnmetIdentifiers;
use pt_plan::Fault;
use pt_quick::look_over;
use pt_state::paths::{in_pairtree, in_storage_root};
use pt_tree::{Log, Source};
use std::alloc::Global;

/// Holds the storage root that stands against the objects of a Pairtree store: each is compared,
/// path by path and byte by byte, with what stands at its place, and the log tells of each what was
/// found. By lengths each is looked over instead, as `look_over` of pt_quick does, and one that
/// fits is told as alike: so both sources may show no more of a file than the text of its length.
///
/// The store is seen as a run with this job sees it; but each object is compared, also a second one
/// of an identifier. Of the job's description of the version nothing is compared: moment, user and
/// message may be whatever the inventory that stands gives. `Dest` is answered where the root can't
/// be read, `Target` where it isn't one of this layout, once the store was found to be one with a
/// good prefix, `Turns` only where the limit is less than a survey's work, and the other faults as
/// by `migrate`; `StagingLeft` and `Ended` never. Nothing is made or changed, but that the log gets
/// its lines: after a fault a front of what is told of the first items, or of all with the end
/// line. How many there are is told after each step.
///
/// It is made by steps of a survey (`made`), of which there are no more than the limit of turns,
/// nor than a survey's work; after each of them the survey holds no more than a run's bound, and
/// nothing but a run's fields, and nothing of a comparison is held. While a file of the store is
/// read for its digest, what stands in the root is read beside it; of a content that isn't alike
/// both are read once more. By lengths nothing is read beside. A step calls the store at most three
/// times; no clause counts what the comparison reads.
pub fn audit<S: Source, R: Source, L: Log, O: Observer<Counts>>(
    alloc: Global,
    source: &mut S,
    root: &mut R,
    log: &mut L,
    task: AuditTask,
    observer: &O,
) -> Result<AuditCompletion, Fault>
    ensures ends { LogsAs (job_of task.job) (start_over task.by (tree_in (S.told source.old))
        (tree_in (R.told root.old)) (L.told log.old)) (L.told log.new) (counts_at_end result) }
    ensures layout { OnOk result (ForSome (tree_in (R.told root.old))
        (IsOfLayout (job_of task.job))) }
    ensures keeps { KeepsAll S.Source R.Source L.Log (source.old, root.old, log.old)
        (source.new, root.new, log.new) }
    ensures blames { BlamesRightly
        (failures (S.failed source.old) (R.failed root.old) (L.failed log.old))
        (failures (S.failed source.new) (R.failed root.new) (L.failed log.new)) result }
    ensures says { IfErr result (AuditSays task.job (tree_in (S.told source.old))
        (tree_in (R.told root.old))) }
    ensures made { IsMade task.job (tree_in (S.told source.old)) (counts_at_end result) }
    ensures unmet { IfOk result (λ audited.
        AreUnmetIn task.job (tree_in (S.told source.old)) audited.unmet) }
{
    let by = task.by;
    let audited = audit_objects(alloc, source, root, log, task, observer)?;
    let counts = tell_audit_end(alloc, by, audited.counts, log)?;
    Ok(AuditCompletion {
        counts,
        unmet: audited.unmet,
    })
}

/// What an audit came to that came to its end.
#[derive(Drop)]
pub struct AuditCompletion {
    /// How many lines there are of each kind.
    pub counts: Counts,
    /// The identifiers of the share's list of which it met no object.
    pub unmet: UnmetIdentifiers,
}

/// An audit that told of all objects, and not yet of its end.
#[derive(Drop)]
pub struct ObjectsAudit {
    /// How many lines there are of each kind.
    pub counts: Counts,
    /// What it was asked for.
    pub job: Job,
    /// By what it compared.
    pub by: CompareBy,
    /// What each identifier of the store begins with.
    pub prefix: String,
    /// The identifiers of the share's list of which it met no object.
    pub unmet: UnmetIdentifiers,
}

/// The same as `audit`, but for the end line, which is left to the caller: after a fault the log
/// has a front of what is told of the first items. It answers the faults of `audit`, and gives what
/// the caller may go on with.
pub fn audit_objects<S: Source, R: Source, L: Log, O: Observer<Counts>>(
    alloc: Global,
    source: &mut S,
    root: &mut R,
    log: &mut L,
    task: AuditTask,
    observer: &O,
) -> Result<ObjectsAudit, Fault>
    ensures ends { TellsItems (job_of task.job) (start_over task.by (tree_in (S.told source.old))
        (tree_in (R.told root.old)) (L.told log.old)) (L.told log.new) result }
    ensures given { IfOk result (GivesBack task (tree_in (S.told source.old))) }
    ensures layout { OnOk result (ForSome (tree_in (R.told root.old))
        (IsOfLayout (job_of task.job))) }
    ensures keeps { KeepsAll S.Source R.Source L.Log (source.old, root.old, log.old)
        (source.new, root.new, log.new) }
    ensures blames { BlamesRightly
        (failures (S.failed source.old) (R.failed root.old) (L.failed log.old))
        (failures (S.failed source.new) (R.failed root.new) (L.failed log.new)) result }
    ensures says { IfErr result (AuditSays task.job (tree_in (S.told source.old))
        (tree_in (R.told root.old))) }
    ensures made { IsMade task.job (tree_in (S.told source.old)) (counts_in result) }
    ensures unmet { IfOk result (λ audited.
        AreUnmetIn task.job (tree_in (S.told source.old)) audited.unmet) }
{
    let AuditTask { job, by } = task;
    let mut auditor = Auditor {
        alloc,
        by,
        survey: Survey::start(alloc, job),
        beside: RootReader::new(alloc),
        counts: Counts::none(),
    };
    let counts = auditor.go_through(source, root, log, observer)?;
    Ok(auditor.survey.into_audit(by, counts))
}

// An audit between two steps.
#[derive(Drop)]
struct Auditor {
    alloc: Global,
    by: CompareBy,
    // The store, as far as it was seen, and what is read of the root beside it.
    survey: Survey,
    beside: RootReader,
    // How many lines were told, but for those of what was passed over: these the survey counts.
    counts: Counts,
}

// What was told of a step.
#[derive(Drop)]
struct StepReport {
    // The counts with it.
    counts: Counts,
    // Whether there is more to see.
    more: bool,
}

/// What is found of an object, and whether it is told as the difference of a twin.
#[derive(Drop)]
pub(crate) struct AuditFinding {
    pub(crate) comparison: Comparison,
    pub(crate) is_twin: bool,
}

impl Auditor {
    // Makes the steps of a survey that has just begun, to its end. After each it is told how many
    // lines there are.
    fn go_through<S: Source, R: Source, L: Log, O: Observer<Counts>>(
        &mut self,
        source: &mut S,
        root: &mut R,
        log: &mut L,
        observer: &O,
    ) -> Result<Counts, Fault>
        requires { Begins self.old
            (audit_states S.Source R.Source L.Log (source.old, root.old, log.old)) }
        ensures ends { IfOk result (λ counts. HasSeenAll (start_over self.old.by
            (tree_in (S.told source.old)) (tree_in (R.told root.old)) (L.told log.old))
            (L.told log.new) counts self.new.survey
            × (self.new.survey.state.job ≡ self.old.survey.state.job)) }
        ensures made { IsMadeFrom (tree_in (S.told source.old)) self.old.survey result }
        ensures keeps { KeepsAll S.Source R.Source L.Log (source.old, root.old, log.old)
            (source.new, root.new, log.new) }
        ensures blamed { FailsRightly self.old.survey.state.job
            (audit_states S.Source R.Source L.Log (source.old, root.old, log.old))
            (audit_states S.Source R.Source L.Log (source.new, root.new, log.new)) result }
        ensures stops { OnErr result (FrontToldAs (job_of self.old.survey.state.job)
            (start_over self.old.by (tree_in (S.told source.old)) (tree_in (R.told root.old))
            (L.told log.old)) (L.told log.new)) }
    {
        loop {
            let more = self.go_on(source, root, log)?;
            let so_far = self.so_far();
            observer.observe(so_far);
            if !more {
                return Ok(so_far);
            }
        }
    }

    // How many lines of each kind were told.
    fn so_far(&self) -> Counts
        ensures { result ≡ counted self.now.counts self.now.survey }
    {
        self.counts.with_skipped(self.survey.report().skipped)
    }

    // Makes one step of the survey, and tells of what was seen. Whether there is more to see.
    fn go_on<S: Source, R: Source, L: Log>(
        &mut self,
        source: &mut S,
        root: &mut R,
        log: &mut L,
    ) -> Result<bool, Fault>
        requires { FollowsOn (S.told source.old) (R.told root.old)
            self.old.beside self.old.survey }
        ensures made { StepsOn self.old self.new
            (audit_states S.Source R.Source L.Log (source.old, root.old, log.old))
            (audit_states S.Source R.Source L.Log (source.new, root.new, log.new)) result }
        ensures keeps { KeepsAll S.Source R.Source L.Log (source.old, root.old, log.old)
            (source.new, root.new, log.new) }
    {
        let sight = self.see(source, root, log)?;
        let told = self.tell(sight, source, root, log)?;
        self.counts = told.counts;
        Ok(told.more)
    }

    // Makes one step of the survey, and reads the root as far.
    fn see<S: Source, R: Source, L: Log>(
        &mut self,
        source: &mut S,
        root: &mut R,
        log: &mut L,
    ) -> Result<SurveyEvent, Fault>
        requires { FollowsOn (S.told source.old) (R.told root.old)
            self.old.beside self.old.survey }
        ensures made { SeesStep self.old self.new
            (audit_states S.Source R.Source L.Log (source.old, root.old, log.old))
            (audit_states S.Source R.Source L.Log (source.new, root.new, log.new)) result }
        ensures keeps { KeepsAll S.Source R.Source L.Log (source.old, root.old, log.old)
            (source.new, root.new, log.new) }
        ensures unread { LeavesRoot self.old.by root.old root.new }
    {
        let sight = self.survey.step(source, log)?;
        self.follow(root, sight)?;
        Ok(sight)
    }

    // Reads the root as far as the survey has seen; by lengths nothing is read of it beside.
    fn follow<R: Source>(&mut self, root: &mut R, sight: SurveyEvent) -> Result<(), Fault>
        requires ready { CanFollow (R.told root.old) self.old.beside }
        requires saw { sight ≡ sight_at self.old.survey.phase }
        ensures beside { self.new ≡ record self.old { beside = self.new.beside } }
        ensures paced { (source : Option Reading)
            → IsBehind source (R.told root.old) self.old.beside self.old.survey
            → OnOk result (IsPaced source (R.told root.new) self.new.beside self.old.survey) }
        ensures still { OnOk result (CanFollow (R.told root.new) self.new.beside) }
        ensures root { KeepsRoot R.told R.keeps root.old root.new
            × LeavesRoot self.old.by root.old root.new }
        ensures failures { ReadFailsAs result (R.failed root.old) (R.failed root.new) }
    {
        match self.by {
            CompareBy::Bytes => self.beside.follow(root, &self.survey, sight),
            CompareBy::Lengths => {
                self.beside.stay_closed();
                Ok(())
            }
        }
    }

    // Tells of what was seen by a step.
    fn tell<S: Source, R: Source, L: Log>(
        &self,
        sight: SurveyEvent,
        source: &mut S,
        root: &mut R,
        log: &mut L,
    ) -> Result<StepReport, Fault>
        requires { Saw (S.told source.old) (R.told root.old) self.now.beside sight self.now.survey }
        ensures told { TellsStep self.now
            (audit_states S.Source R.Source L.Log (source.old, root.old, log.old))
            (audit_states S.Source R.Source L.Log (source.new, root.new, log.new)) result }
        ensures keeps { KeepsAll S.Source R.Source L.Log (source.old, root.old, log.old)
            (source.new, root.new, log.new) }
    {
        match sight {
            SurveyEvent::More | SurveyEvent::Scan | SurveyEvent::Opened | SurveyEvent::Block => {
                Ok(StepReport {
                    counts: self.counts,
                    more: true,
                })
            }
            SurveyEvent::Store => {
                check_layout(self.alloc, root, self.survey.job())?;
                Ok(StepReport {
                    counts: self.counts,
                    more: true,
                })
            }
            SurveyEvent::Object => {
                let counts = self.tell_object(source, root, log)?;
                Ok(StepReport { counts, more: true })
            }
            SurveyEvent::End => Ok(StepReport {
                counts: self.counts,
                more: false,
            }),
        }
    }

    // Compares the object at hand, and tells what was found. The counts with it.
    fn tell_object<S: Source, R: Source, L: Log>(
        &self,
        source: &mut S,
        root: &mut R,
        log: &mut L,
    ) -> Result<Counts, Fault>
        requires paced { Follows (S.told source.old) (R.told root.old)
            self.now.beside self.now.survey }
        requires at_hand { sight_at self.now.survey.phase ≡ sight.Object }
        ensures told { TellsObject self.now
            (audit_states S.Source R.Source L.Log (source.old, root.old, log.old))
            (audit_states S.Source R.Source L.Log (source.new, root.new, log.new)) result }
        ensures keeps { KeepsAll S.Source R.Source L.Log (source.old, root.old, log.old)
            (source.new, root.new, log.new) }
    {
        let hand = self.survey.at_hand()?;
        let finding = self.judge(&hand, source, root)?;
        let line = object_line(self.alloc, self.by, &hand.told, &finding)?;
        log.put(line.as_bytes()).map_err(Fault::of_log)?;
        Ok(self.counts.with(&finding.comparison))
    }

    // What is found of the object at hand, and whether it is a twin.
    fn judge<S: Source, R: Source>(
        &self,
        hand: &ObjectAtHand<'_>,
        source: &mut S,
        root: &mut R,
    ) -> Result<AuditFinding, Fault>
        requires paced { Follows (S.told source.old) (R.told root.old)
            self.now.beside self.now.survey }
        requires at_hand { sight_at self.now.survey.phase ≡ sight.Object }
        requires hand { IsHand self.now.survey hand.now }
        ensures found { IfOk result (λ it. IsFoundAtHand self.now.by self.now.survey.state.job
            hand.now (tree_in (S.told source.old)) (tree_in (R.told root.old)) it.comparison) }
        ensures twin { IfOk result (λ it. IsTwinAtHand (tree_in (S.told source.old))
            self.now.survey hand.now.told.id.now it.comparison it.is_twin) }
        ensures source { KeepsRoot S.told S.keeps source.old source.new }
        ensures root { KeepsRoot R.told R.keeps root.old root.new }
        ensures fails { FailsAs result (failures (S.failed source.old) (R.failed root.old) 0)
            (failures (S.failed source.new) (R.failed root.new) 0) }
    {
        let comparison = self.compare(hand, source, root)?;
        let is_twin = finds_twin(source, &self.survey, hand.told.id.as_str(), &comparison)?;
        Ok(AuditFinding {
            comparison,
            is_twin,
        })
    }

    // What is found of the object at hand.
    fn compare<S: Source, R: Source>(
        &self,
        hand: &ObjectAtHand<'_>,
        source: &mut S,
        root: &mut R,
    ) -> Result<Comparison, Fault>
        requires paced { Follows (S.told source.old) (R.told root.old)
            self.now.beside self.now.survey }
        requires at_hand { sight_at self.now.survey.phase ≡ sight.Object }
        requires hand { IsHand self.now.survey hand.now }
        ensures found { IfOk result (IsFoundAtHand self.now.by self.now.survey.state.job hand.now
            (tree_in (S.told source.old)) (tree_in (R.told root.old))) }
        ensures source { KeepsRoot S.told S.keeps source.old source.new }
        ensures root { KeepsRoot R.told R.keeps root.old root.new }
        ensures fails { FailsAs result (failures (S.failed source.old) (R.failed root.old) 0)
            (failures (S.failed source.new) (R.failed root.new) 0) }
    {
        let from = in_pairtree(hand.told.at.copy()?)?;
        let to = in_storage_root(self.alloc, hand.told.to)?;
        let object = ScannedObject {
            id: hand.told.id.as_str(),
            rows: hand.rows,
            contents: hand.contents,
            alike: self.beside.alike_at(&hand.told.at, hand.told.to),
            stands: self.beside.has_folder(&to),
            algorithm: self.survey.job().algorithm,
            from: &from,
            to: &to,
        };
        match self.by {
            CompareBy::Bytes => compare(self.alloc, source, root, &object),
            CompareBy::Lengths => look_over(self.alloc, source, root, &object),
        }
    }
}

// Whether what was found of the object at hand, which has this identifier, is told as the
// difference of a twin. Where it doesn't differ, nothing is looked at.
fn finds_twin<S: Source>(
    source: &mut S,
    survey: &Survey,
    id: &str,
    finding: &Comparison,
) -> Result<bool, Fault>
    requires under_way { Surveys (S.told source.old) survey.now }
    requires at_hand { sight_at survey.now.phase ≡ sight.Object }
    ensures twin { IfOk result (IsTwinAtHand (tree_in (S.told source.old)) survey.now
        id.now finding.now) }
    ensures source { KeepsRoot S.told S.keeps source.old source.new }
    ensures fails { FailsAs result (failures (S.failed source.old) 0 0)
        (failures (S.failed source.new) 0 0) }
{
    match finding {
        Comparison::Same | Comparison::Absent => Ok(false),
        Comparison::Differs(_) => {
            let site = survey.site()?;
            let own = skip_prefix(id.as_bytes(), survey.prefix().as_bytes());
            let is_twin = is_second(source, survey.job(), &site, own).map_err(Fault::of_source)?;
            Ok(is_twin)
        }
    }
}

// Tells the end, with the counts, and gives these.
fn tell_audit_end<L: Log>(
    alloc: Global,
    by: CompareBy,
    counts: Counts,
    log: &mut L,
) -> Result<Counts, Fault>
    ensures told { IfOk result (λ told. (told ≡ counts)
        × Appends (L.told log.old) (L.told log.new) (last_text by counts)) }
    ensures part { OnErr result (AppendsFront (L.told log.old) (L.told log.new)
        (last_text by counts)) }
    ensures log { KeepsLog L.told L.keeps log.old log.new }
    ensures fails { FailsAs result (failures 0 0 (L.failed log.old))
        (failures 0 0 (L.failed log.new)) }
{
    let line = end_line(alloc, by, &counts)?;
    log.put(line.as_bytes()).map_err(Fault::of_log)?;
    Ok(counts)
}
