//! The turns of the walk through the sites of a pairtree.
ghost use Rattle.std.specs.Prelude.{◌≡◌, ◌<◌, ◌^◌, [], IfOk};
ghost use Rattle.pt_name.specs.Share.{walks};
ghost use Rattle.pt_plan.specs.Enabled.{MayEnter};
ghost use Rattle.pt_plan.specs.TurnWalk.{in_pairtree as in_pairtree_of};
ghost use Rattle.pt_plan.specs.declared.phase.Opening.TheVariants as opening;
ghost use Rattle.pt_plan.specs.declared.phase.Phase.TheVariants as phase;
ghost use Rattle.pt_tree.specs.Source.{CanList};
ghost use Rattle.pt_walk.specs.Sites.{at_of, is_last as is_last_of};
ghost use Rattle.pt_walk.specs.Trail.{names_to, trail_path};
ghost use Rattle.pt_state.specs.Turns.{TakesTurn};
ghost use Rattle.pt_scan.specs.Walking.{CanPassShorty, EntersSite, IsAtShorty, PassesShorty};

use pt_object::WellKnownName;
use pt_plan::{Fault, Phase};
use pt_state::lines::put_skip;
use pt_state::paths::{entry_in_pairtree, entry_path};
use pt_state::{Io, State};
use pt_tree::{MemoryFault, NamePath};
use pt_walk::{At, Cause, Trail, is_shorty};

/// Lists `pairtree_root` and enters it; nothing is entered yet. Gives the phase that judges it.
///
/// Halts for `Source` where it can't be listed, and for `Memory` where a growth is refused; what is
/// held stays then.
pub fn open_root<O: Io>(state: &mut State, out: &mut O) -> Result<Phase, Fault>
    requires may { CanList (O.states out.old).source (in_pairtree_of []) }
    requires trail { state.old.trail ≡ [] }
    ensures turn { TakesTurn O.Io (1, 0) (phase.Opening opening.OpenRoot)
        (state.old, out.old) (state.new, out.new) result }
{
    let path = NamePath::of_known(state.alloc, &[WellKnownName::PairtreeRoot])?;
    let listing = out.list(&path)?;
    state.trail.enter(listing)?;
    Ok(Phase::Judge)
}

/// Looks at the next entry of a site. A shorty is listed and entered, to be judged next (Pairtree
/// 0.1, "Mapping identifiers to paths"); one that is too deep, or stands below a name of one byte,
/// is passed over, and told in the log of the share whose it is; one that another share lists, and
/// any other entry, is passed. At its end the listing is left, and after the outermost the walk is
/// done.
///
/// Halts for `Source` where a shorty can't be listed, for `Log` where its line can't be put, and
/// for `Memory` where a growth is refused; what is held stays then.
pub fn walk<O: Io>(state: &mut State, out: &mut O) -> Result<Phase, Fault>
    requires may { MayEnter (O.states out.old).source state.old.trail }
    requires few { state.old.counts.skipped < 2 ^ 40 }
    ensures turn { TakesTurn O.Io (1, 0) phase.Walk
        (state.old, out.old) (state.new, out.new) result }
{
    match state.trail.current() {
        Some((name, kind)) => {
            if is_shorty(name, kind) {
                return meet_shorty(state, out);
            }
            state.trail.advance();
            Ok(Phase::Walk)
        }
        None => {
            if state.trail.len() <= 1 {
                return Ok(Phase::End);
            }
            state.trail.leave();
            state.trail.advance();
            Ok(Phase::Walk)
        }
    }
}

// Enters the shorty at the trail's place, tells why not, or leaves it to another share.
fn meet_shorty<O: Io>(state: &mut State, out: &mut O) -> Result<Phase, Fault>
    requires may { MayEnter (O.states out.old).source state.old.trail }
    requires passes { CanPassShorty state.old }
    ensures turn { TakesTurn O.Io (1, 0) phase.Walk
        (state.old, out.old) (state.new, out.new) result }
{
    if is_last(&state.trail) {
        return pass_shorty(state, Cause::Past, out);
    }
    if state.trail.len() as u64 > state.job.limits.depth() {
        return pass_shorty(state, Cause::Limit, out);
    }
    if !is_walked(state)? {
        state.trail.advance();
        return Ok(Phase::Walk);
    }
    enter_site(state, out)
}

// Whether the shorty at the trail's place is walked, which another share may do in place of this.
fn is_walked(state: &State) -> Result<bool, MemoryFault>
    requires shorty { IsAtShorty state.now.trail }
    ensures { IfOk result (λ own. own ≡ walks state.now.job.share (names_to state.now.trail)) }
{
    if !state.job.share.divides_at(state.trail.len()) {
        return Ok(true);
    }
    let path = entry_path(&state.trail)?;
    Ok(state.job.share.walks(&path))
}

// Passes over the shorty at the trail's place, and tells so in the share whose it is.
fn pass_shorty<O: Io>(state: &mut State, cause: Cause, out: &mut O) -> Result<Phase, Fault>
    requires line { PassesShorty state.old cause }
    requires passes { CanPassShorty state.old }
    ensures turn { TakesTurn O.Io (0, 0) phase.Walk
        (state.old, out.old) (state.new, out.new) result }
{
    let path = entry_path(&state.trail)?;
    if !state.job.share.tells_at(&path) {
        state.trail.advance();
        return Ok(Phase::Walk);
    }
    put_skip(state.alloc, out, &path, cause, &mut state.counts)?;
    state.trail.advance();
    Ok(Phase::Walk)
}

// Lists the shorty at the trail's place and enters it.
fn enter_site<O: Io>(state: &mut State, out: &mut O) -> Result<Phase, Fault>
    requires line { EntersSite state.old }
    requires may { MayEnter (O.states out.old).source state.old.trail }
    requires shorty { IsAtShorty state.old.trail }
    ensures turn { TakesTurn O.Io (1, 0) phase.Walk
        (state.old, out.old) (state.new, out.new) result }
{
    let path = listed_path(state)?;
    let listing = out.list(&path)?;
    state.trail.enter(listing)?;
    Ok(Phase::Judge)
}

// The path in the source of the entry at the trail's place.
pub(crate) fn listed_path(state: &State) -> Result<NamePath, MemoryFault>
    ensures { IfOk result (λ path. path ≡ in_pairtree_of (names_to state.now.trail)) }
{
    entry_in_pairtree(state.alloc, &state.trail, 0)
}

// Whether the site that was entered is of a name of one byte, below which no site is.
fn is_last(trail: &Trail) -> bool
    ensures { result ≡ is_last_of (at_of (trail_path trail.now)) }
{
    trail.site_position() == At::Last
}
