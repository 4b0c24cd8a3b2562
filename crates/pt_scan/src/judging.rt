//! The turn that judges a site: what it is, and whether its object may be carried.
ghost use Rattle.std.specs.Prelude.{◌≡◌, ◌<◌, ◌^◌, cond, IfOk, IfSome, IsTrue};
ghost use Rattle.pt_name.specs.declared.identifying.Identification.TheVariants as answer;
ghost use Rattle.pt_plan.specs.Items.{cause_of_refusal};
ghost use Rattle.pt_plan.specs.Job.{form_of as form_of_job};
ghost use Rattle.pt_plan.specs.TurnWalk.{at_object, found_at, in_root, path_of_object};
ghost use Rattle.pt_plan.specs.declared.phase.Phase.TheVariants as phase;
ghost use Rattle.pt_plan.specs.declared.phase.Stage.TheVariants as stage;
ghost use Rattle.pt_walk.specs.Trail.{has_place, trail_path};
ghost use Rattle.pt_walk.specs.declared.site.Form.TheVariants as form;
ghost use Rattle.pt_state.specs.Outside.{Found};
ghost use Rattle.pt_state.specs.Turns.{TakesTurn, TakesTurnAt};
ghost use Rattle.pt_state.specs.States.{job_of};
ghost use Rattle.pt_scan.specs.Judging.{CanPass, IsIdentified, IsJudging, IsPassedAt};

use pt_name::{Identification, PlacedObject, Refusal, identify};
use pt_plan::{Fault, Object, Phase, Stage};
use pt_state::lines::{put_present, put_skip};
use pt_state::paths::in_storage_root;
use pt_state::{Io, Job, State};
use pt_tree::{Kind, MemoryFault, NamePath};
use pt_walk::{Cause, Finding, Form, Trail, judge as judged};
use std::alloc::Global;

/// Judges the site that was entered: it only leads on, is told in the log and passed over, or has
/// an object, whose place is asked for. An object whose place is free is to be entered next; one
/// whose place is taken is told in the log as present. An object of another share is passed without
/// a line, and so is a site without an object that can be carried where another share tells it.
///
/// Halts for `Dest` where the place can't be asked for, for `Log` where a line can't be put, and
/// for `Memory` where a growth is refused; what is held stays then.
pub fn judge<O: Io>(state: &mut State, out: &mut O) -> Result<Phase, Fault>
    requires { CanPass state.old }
    ensures turn { TakesTurn O.Io (0, 1) phase.Judge
        (state.old, out.old) (state.new, out.new) result }
{
    match finding(state) {
        Finding::Interior => Ok(Phase::Walk),
        Finding::Skip(cause) => {
            let site = state.trail.path()?;
            pass_over(state, &site, cause, out)
        }
        Finding::Candidate(index) => {
            let site = state.trail.path()?;
            judge_object(state, &site, Some(index), out)
        }
        Finding::Gathered => {
            let site = state.trail.path()?;
            judge_object(state, &site, None, out)
        }
    }
}

// What the site is that was entered.
fn finding(state: &State) -> Finding
    ensures { result ≡ found_at (form_of_job (job_of state.now.job)) state.now.trail }
{
    match state.trail.innermost() {
        Some(listing) => judged(
            listing,
            state.trail.site_position(),
            form_of(state.job.gather),
        ),
        None => Finding::Interior,
    }
}

/// What is made of a divided site: an object where these are gathered.
pub fn form_of(gather: bool) -> Form
    ensures { result ≡ cond gather form.Gathering form.Plain }
{
    if gather { Form::Gathering } else { Form::Plain }
}

// Passes over a site, and tells so in the share whose it is.
fn pass_over<O: Io>(
    state: &mut State,
    site: &NamePath,
    cause: Cause,
    out: &mut O,
) -> Result<Phase, Fault>
    requires line { IsPassedAt state.old site.now cause }
    requires few { state.old.counts.skipped < 2 ^ 40 }
    ensures turn { TakesTurnAt O.Io (0, 0) (λ here. here ≡ phase.Judge)
        (state.old, out.old) (state.new, out.new) result }
{
    if !state.job.share.tells_at(site) {
        return Ok(Phase::Walk);
    }
    put_skip(state.alloc, out, site, cause, &mut state.counts)?;
    Ok(Phase::Walk)
}

// Asks what the names of a site say of its object, which is the entry of this index, or else is
// gathered. The identifier that they read is met, whatever they say; an object of another share is
// passed.
fn judge_object<O: Io>(
    state: &mut State,
    site: &NamePath,
    index: Option<usize>,
    out: &mut O,
) -> Result<Phase, Fault>
    requires judges { IsJudging state.old site.now index }
    requires passes { CanPass state.old }
    ensures turn { TakesTurn O.Io (0, 1) phase.Judge
        (state.old, out.old) (state.new, out.new) result }
{
    let prefix = state.prefix.as_str();
    let Job { layout, share, .. } = &state.job;
    match identify(site, prefix, *layout, share, &mut state.unmet)? {
        Identification::Refused(refusal) => pass_over(state, site, cause_of(refusal), out),
        Identification::OtherShare => Ok(Phase::Walk),
        Identification::Candidate(candidate) => find_place(state, site, index, candidate, out),
    }
}

// The cause by which a refusal is told.
fn cause_of(refusal: Refusal) -> Cause
    ensures { result ≡ cause_of_refusal refusal }
{
    match refusal {
        Refusal::Malformed => Cause::Name,
        Refusal::NotUtf8 => Cause::Utf8,
        Refusal::Reserved => Cause::Reserved,
    }
}

// Asks what stands at an object's place, which is carried where nothing does.
fn find_place<O: Io>(
    state: &mut State,
    site: &NamePath,
    index: Option<usize>,
    candidate: PlacedObject,
    out: &mut O,
) -> Result<Phase, Fault>
    requires judges { IsJudging state.old site.now index }
    requires ours { IsIdentified state.old (answer.Candidate candidate) }
    requires present { state.old.counts.present < 2 ^ 40 }
    ensures turn { TakesTurnAt O.Io (0, 1) (λ here. here ≡ phase.Judge)
        (state.old, out.old) (state.new, out.new) result }
{
    match kind_at(state.alloc, &candidate.place, out)? {
        None => {
            seek_object(&mut state.trail, index);
            Ok(carry_phase(candidate, index.is_none(), state.trail.len()))
        }
        Some(_) => {
            let at = object_at(&state.trail, site, index)?;
            put_present(state.alloc, out, &at, &candidate, &mut state.counts)?;
            Ok(Phase::Walk)
        }
    }
}

// Asks what stands at a place of the storage root.
fn kind_at<O: Io>(alloc: Global, place: &NamePath, out: &mut O) -> Result<Option<Kind>, Fault>
    ensures { Found O.states (O.within 0 1) (in_root place.now) out.old out.new result }
{
    let path = in_storage_root(alloc, place)?;
    out.kind(&path)
}

// Goes to the entry of this index, which is a site's object, unless that is gathered.
fn seek_object(trail: &mut Trail, index: Option<usize>)
    requires { IfSome index (λ i. IsTrue (has_place i trail.old)) }
    ensures { trail.new ≡ at_object index trail.old }
{
    if let Some(index) = index {
        trail.seek(index);
    }
}

// The path of a site's object, which is the entry of this index, or else the site.
fn object_at(trail: &Trail, site: &NamePath, index: Option<usize>) -> Result<NamePath, MemoryFault>
    requires { site.now ≡ trail_path trail.now }
    ensures { IfOk result (λ path. path ≡ path_of_object index trail.now) }
{
    let mut path = site.copy()?;
    if let Some(index) = index
        && let Some(listing) = trail.innermost()
        && let Some((name, _)) = listing.get(index)
    {
        path.push(name.copy()?)?;
    }
    Ok(path)
}

// The turn after the one that found an object whose place is free.
fn carry_phase(candidate: PlacedObject, gathered: bool, site: usize) -> Phase
    ensures { result ≡ phase.Carrying (record {
      id = candidate.id;
      place = candidate.place;
      gathered = gathered;
      site = site;
      empty = 0;
    }) stage.Open }
{
    Phase::Carrying(
        Object {
            id: candidate.id,
            place: candidate.place,
            gathered,
            site,
            empty: 0,
        },
        Stage::Open,
    )
}
