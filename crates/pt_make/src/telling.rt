//! The turns that tell of an object that was carried, and of the end.
ghost use Rattle.pt_plan.specs.declared.phase.Phase.TheVariants as phase;
ghost use Rattle.pt_plan.specs.declared.phase.Stage.TheVariants as stage;
ghost use Rattle.pt_state.specs.Turns.{TakesTurn};
ghost use Rattle.pt_make.specs.Making.{CanTellDone};

use pt_plan::{Fault, Object, Phase};
use pt_state::lines::{put_done, put_end};
use pt_state::site::back_to_site;
use pt_state::{Io, State, as_told};

/// Tells that an object is done, and walks on from its site.
///
/// Halts for `Log` where the line can't be put, and for `Memory` where a growth is refused. What is
/// held stays then; a part of the line may stand in the log.
pub fn tell_done<O: Io>(state: &mut State, object: Object, out: &mut O) -> Result<Phase, Fault>
    requires { CanTellDone state.old }
    ensures turn { TakesTurn O.Io (0, 0) (phase.Carrying object stage.Line)
        (state.old, out.old) (state.new, out.new) result }
{
    let line = as_told(&object, state)?;
    put_done(state.alloc, out, &line, &mut state.counts)?;
    back_to_site(&mut state.trail, &mut state.rows, &mut state.contents);
    Ok(Phase::Walk)
}

/// Tells that the run is done.
///
/// Halts for `Log` where the line can't be put, and for `Memory` where a growth is refused. A part
/// of the line may stand in the log then.
pub fn tell_end<O: Io>(state: &State, out: &mut O) -> Result<Phase, Fault>
    ensures turn { TakesTurn O.Io (0, 0) phase.End
        (state.now, out.old) (state.now, out.new) result }
{
    put_end(state.alloc, out, &state.counts)?;
    Ok(Phase::Ended)
}
