//! The turns that bring an object from `staging` to its place in the storage root.
ghost use Rattle.std.specs.Prelude.{◌≡◌, ◌<◌};
ghost use Rattle.pt_object.specs.Scripts.{staging};
ghost use Rattle.pt_plan.specs.Enabled.{HasParent};
ghost use Rattle.pt_plan.specs.TurnPlace.{after_tuple as after_tuple_of, tuple_folder};
ghost use Rattle.pt_plan.specs.TurnWalk.{in_root};
ghost use Rattle.pt_plan.specs.DeviceStates.{Renames, does};
ghost use Rattle.pt_plan.specs.declared.phase.Phase.TheVariants as phase;
ghost use Rattle.pt_plan.specs.declared.phase.Stage.TheVariants as stage;
ghost use Rattle.pt_state.specs.States.{job_of};
ghost use Rattle.pt_state.specs.Outside.{Called};
ghost use Rattle.pt_state.specs.Turns.{TakesTurn};
ghost use Rattle.pt_tree.specs.Dest.{MayMove};

use pt_object::WellKnownName;
use pt_plan::{Fault, Object, Phase, Stage};
use pt_state::paths::{front_in_storage_root, in_storage_root};
use pt_state::{Io, State};
use pt_tree::{Kind, NamePath};
use std::alloc::Global;

/// Makes a tuple directory on the way to an object's place, where it is absent (extension 0003).
///
/// Halts for `Target` where what stands there is no directory, for `Dest` where that can't be asked
/// or the directory not be made, and for `Memory` where a growth is refused; nothing is changed
/// then.
pub fn make_tuple<O: Io>(
    state: &State,
    object: Object,
    index: usize,
    out: &mut O,
) -> Result<Phase, Fault>
    requires few { index < state.now.job.layout.count }
    requires may { HasParent (O.states out.old).dest (tuple_folder object index) }
    ensures turn { TakesTurn O.Io (0, 1) (phase.Carrying object (stage.Tuples index))
        (state.now, out.old) (state.now, out.new) result }
{
    let _tuples = state.job.layout.count();
    let path = front_in_storage_root(state.alloc, &object.place, index + 1)?;
    enter_tuple(state, object, index, &path, out)
}

// Makes the tuple directory of this path, where it is absent.
fn enter_tuple<O: Io>(
    state: &State,
    object: Object,
    index: usize,
    path: &NamePath,
    out: &mut O,
) -> Result<Phase, Fault>
    requires few { index < state.now.job.layout.count }
    requires path { path.now ≡ tuple_folder object index }
    requires may { HasParent (O.states out.old).dest path.now }
    ensures turn { TakesTurn O.Io (0, 1) (phase.Carrying object (stage.Tuples index))
        (state.now, out.old) (state.now, out.new) result }
{
    match out.kind(path)? {
        None => {
            out.mkdir(path)?;
            Ok(after_tuple(state, object, index))
        }
        Some(Kind::Dir) => Ok(after_tuple(state, object, index)),
        Some(_) => Err(Fault::Target),
    }
}

// What follows a tuple directory.
fn after_tuple(state: &State, object: Object, index: usize) -> Phase
    requires { index < state.now.job.layout.count }
    ensures { result ≡ after_tuple_of (job_of state.now.job) object index }
{
    let count = state.job.layout.count() as usize;
    if index + 1 < count {
        Phase::Carrying(object, Stage::Tuples(index + 1))
    } else {
        Phase::Carrying(object, Stage::Rename)
    }
}

/// Renames `staging` to an object's place.
///
/// Halts for `Dest` where it can't be renamed, and for `Memory` where a growth is refused; what the
/// destination tells is as it was then.
pub fn rename<O: Io>(state: &State, object: Object, out: &mut O) -> Result<Phase, Fault>
    requires may { MayMove (O.states out.old).dest staging (in_root object.place) }
    ensures turn { TakesTurn O.Io (0, 0) (phase.Carrying object stage.Rename)
        (state.now, out.old) (state.now, out.new) result }
{
    let to = in_storage_root(state.alloc, &object.place)?;
    rename_staging(state.alloc, &to, out)?;
    Ok(Phase::Carrying(object, Stage::Line))
}

/// Renames `staging` to a path of the destination.
///
/// Halts for `Dest` where it can't be renamed, and for `Memory` where a growth is refused; what the
/// destination tells is as it was then.
pub(crate) fn rename_staging<O: Io>(alloc: Global, to: &NamePath, out: &mut O) -> Result<(), Fault>
    requires { MayMove (O.states out.old).dest staging to.now }
    ensures { Called O.states (O.within 0 0) (does (Renames staging to.now))
        out.old out.new result }
{
    let from = NamePath::of_known(alloc, &[WellKnownName::Staging])?;
    out.rename(&from, to)
}
