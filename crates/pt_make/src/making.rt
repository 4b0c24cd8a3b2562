//! The turns that make an object in `staging`, one part each.
ghost use Rattle.std.specs.Prelude.{◌++◌, ◌∷◌, []};
ghost use Rattle.pt_object.specs.Object.{object_declaration_name};
ghost use Rattle.pt_object.specs.Scripts.{staging};
ghost use Rattle.pt_plan.specs.Enabled.{MayMakePart};
ghost use Rattle.pt_plan.specs.TurnMake.{in_version};
ghost use Rattle.pt_plan.specs.declared.phase.Part.TheVariants as part;
ghost use Rattle.pt_plan.specs.declared.phase.Phase.TheVariants as phase;
ghost use Rattle.pt_plan.specs.declared.phase.Stage.TheVariants as stage;
ghost use Rattle.pt_state.specs.States.{held_of, job_of};
ghost use Rattle.pt_state.specs.Turns.{TakesTurn};
ghost use Rattle.pt_tree.specs.Dest.{MayMake};
ghost use Rattle.pt_make.specs.Making.{IsReadyFor};

use crate::contents::{ObjectContent, make_content, next_content};
use crate::inventories::{InventoryFolder, make_inventory, make_sidecar};
use pt_object::{WellKnownName, object_declaration};
use pt_plan::{Fault, Object, Part, Phase, Position, Stage};
use pt_state::files::put_file;
use pt_state::{Io, State};
use pt_tree::NamePath;

/// Makes a part of an object: its folder in `staging`, the declaration, the version's folder, the
/// contents one after another, and the inventory with its sidecar, first in the version's folder
/// and then at the top (OCFL 1.1, "Object Structure").
///
/// Halts for `Source` where the file that a content is copied from can't be opened, for `Dest`
/// where the part can't be made, and for `Memory` where a growth is refused. What is held stays
/// then; a file that was begun may be left.
pub fn make<O: Io>(
    state: &mut State,
    object: Object,
    part: Part,
    out: &mut O,
) -> Result<Phase, Fault>
    requires may { MayMakePart (job_of state.old.job) object part (held_of state.old [])
        (O.states out.old).source (O.states out.old).dest }
    requires ready { IsReadyFor part object state.old }
    ensures turn { TakesTurn O.Io (1, 0) (phase.Carrying object (stage.Make part))
        (state.old, out.old) (state.new, out.new) result }
{
    match part {
        Part::Staging => make_staging(state, object, out),
        Part::Declaration => make_declaration(state, object, out),
        Part::Version => make_version(state, object, out),
        Part::Content(position) => make_content(state, ObjectContent { object, position }, out),
        Part::VersionInventory => make_inventory(state, object, InventoryFolder::Version, out),
        Part::VersionSidecar => make_sidecar(state, object, InventoryFolder::Version, out),
        Part::Inventory => make_inventory(state, object, InventoryFolder::Top, out),
        Part::Sidecar => make_sidecar(state, object, InventoryFolder::Top, out),
    }
}

// Makes `staging`.
fn make_staging<O: Io>(state: &State, object: Object, out: &mut O) -> Result<Phase, Fault>
    requires may { MayMake (O.states out.old).dest staging }
    ensures turn { TakesTurn O.Io (0, 0) (phase.Carrying object (stage.Make part.Staging))
        (state.now, out.old) (state.now, out.new) result }
{
    let path = NamePath::of_known(state.alloc, &[WellKnownName::Staging])?;
    out.mkdir(&path)?;
    Ok(Phase::Carrying(object, Stage::Make(Part::Declaration)))
}

// Makes the object's declaration (OCFL 1.1, "Object Conformance Declaration").
fn make_declaration<O: Io>(state: &State, object: Object, out: &mut O) -> Result<Phase, Fault>
    requires may { MayMake (O.states out.old).dest (staging ++ object_declaration_name ∷ []) }
    ensures turn { TakesTurn O.Io (0, 0) (phase.Carrying object (stage.Make part.Declaration))
        (state.now, out.old) (state.now, out.new) result }
{
    let path = NamePath::of_known(
        state.alloc,
        &[WellKnownName::Staging, WellKnownName::Declaration],
    )?;
    put_file(out, &path, object_declaration())?;
    Ok(Phase::Carrying(object, Stage::Make(Part::Version)))
}

// Makes the version's folder (OCFL 1.1, "Version Directories").
fn make_version<O: Io>(state: &State, object: Object, out: &mut O) -> Result<Phase, Fault>
    requires may { MayMake (O.states out.old).dest (in_version []) }
    ensures turn { TakesTurn O.Io (0, 0) (phase.Carrying object (stage.Make part.Version))
        (state.now, out.old) (state.now, out.new) result }
{
    let path = NamePath::of_known(
        state.alloc,
        &[WellKnownName::Staging, WellKnownName::Version],
    )?;
    out.mkdir(&path)?;
    let first = Position {
        row: 0,
        stored: 0,
        directories: 0,
    };
    Ok(Phase::Carrying(object, Stage::Make(next_content(&state.rows, first))))
}
