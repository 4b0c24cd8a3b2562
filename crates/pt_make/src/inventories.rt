//! The turns that make an object's inventory and its sidecar, in the version's folder and at the
//! top: the turn that makes the inventory in the version's folder feeds its text to the hasher,
//! whose digest stands in both sidecars.
ghost use Rattle.std.specs.Prelude.{◌≡◌, ◌∷◌, [], IfOk, OnOk};
ghost use Rattle.pt_object.specs.Algorithm.{digest_of};
ghost use Rattle.pt_object.specs.Files.{sidecar_text};
ghost use Rattle.pt_object.specs.Object.{inventory_name, sidecar_name as sidecar_name_of};
ghost use Rattle.pt_plan.specs.TurnMake.{after_last};
ghost use Rattle.pt_plan.specs.declared.phase.Phase.TheVariants as phase;
ghost use Rattle.pt_plan.specs.declared.phase.Stage.TheVariants as stage;
ghost use Rattle.pt_state.specs.Turns.{TakesTurn, WroteBy};
ghost use Rattle.pt_state.specs.States.{job_of};
ghost use Rattle.pt_tree.specs.Dest.{MayMake};
ghost use Rattle.pt_object.specs.WellKnown.{known_text};
ghost use Rattle.pt_make.specs.Making.{HasContentsOfRows, HasFedAt, HasFedInventory, IsFedFor};
ghost use Rattle.pt_make.specs.Making.{IsFedMore};
ghost use Rattle.pt_make.specs.Making.{in_folder, inventory_held, inventory_part, makes_file};
ghost use Rattle.pt_make.specs.Making.{sidecar_part};

use pt_object::{
    Algorithm, Digest, Hasher, InventoryInput, InventoryPieces, WellKnownName, sidecar_of,
};
use pt_plan::{Fault, Object, Part, Phase, Stage};
use pt_state::files::put_file;
use pt_state::{Io, State};
use pt_tree::{MemoryFault, NamePath};
use std::alloc::Global;

// A folder of an object that holds an inventory.
#[derive(Clone, Copy)]
pub(crate) enum InventoryFolder {
    // The version's.
    Version,
    // The object's own.
    Top,
}

/// Makes the inventory in a folder (OCFL 1.1, "Inventory"), piece by piece. The hasher is fed the
/// text of the version's, which is that of the one at the top too.
pub(crate) fn make_inventory<O: Io>(
    state: &mut State,
    object: Object,
    folder: InventoryFolder,
    out: &mut O,
) -> Result<Phase, Fault>
    requires contents { HasContentsOfRows state.old }
    requires fed { IsFedFor folder state.old object }
    requires may { MayMake (O.states out.old).dest (in_folder folder (inventory_name ∷ [])) }
    ensures turn { TakesTurn O.Io (0, 0)
        (phase.Carrying object (stage.Make (inventory_part folder)))
        (state.old, out.old) (state.new, out.new) result }
{
    let path = path_in(state.alloc, folder, WellKnownName::Inventory)?;
    let mut hasher = hasher_for(folder, state.job.algorithm);
    put_text(&path, text_of(state, &object)?, &mut hasher, out)?;
    match hasher {
        Some(hasher) => {
            state.hasher = hasher;
            Ok(Phase::Carrying(object, Stage::Make(Part::VersionSidecar)))
        }
        None => Ok(Phase::Carrying(object, Stage::Make(Part::Sidecar))),
    }
}

// The hasher that the text of the inventory in the version's folder is fed to.
fn hasher_for(folder: InventoryFolder, algorithm: Algorithm) -> Option<Hasher>
    ensures { HasFedAt folder algorithm result [] }
{
    match folder {
        InventoryFolder::Version => Some(Hasher::start(algorithm)),
        InventoryFolder::Top => None,
    }
}

// The text of the object's inventory, of which no piece was made.
fn text_of<'a>(state: &'a State, object: &'a Object) -> Result<InventoryPieces<'a>, MemoryFault>
    requires { HasContentsOfRows state.now }
    ensures { IfOk result (λ text. text.rest ≡ inventory_held state.now object.now) }
{
    let whole = InventoryInput {
        id: object.id.as_str(),
        rows: &state.rows,
        contents: &state.contents,
        meta: &state.job.meta,
        algorithm: state.job.algorithm,
    };
    InventoryPieces::of(state.alloc, whole)
}

// Makes a file of the destination with a text, and feeds it to the hasher, if there is one. Each
// piece is written and fed before the next is made, so that a text of many pieces is nowhere as a
// whole.
fn put_text<O: Io>(
    path: &NamePath,
    mut text: InventoryPieces<'_>,
    hasher: &mut Option<Hasher>,
    out: &mut O,
) -> Result<(), Fault>
    requires { MayMake (O.states out.old).dest path.now }
    ensures wrote { WroteBy O.Io (makes_file path.now text.entry.rest)
        out.old out.new result }
    ensures fed { OnOk result (IsFedMore hasher.old hasher.new text.entry.rest) }
{
    out.create(path)?;
    while text.next()? {
        let piece = text.piece();
        out.append(piece)?;
        feed(hasher, piece);
    }
    out.finish()
}

// Feeds bytes to the hasher, if there is one.
fn feed(hasher: &mut Option<Hasher>, bytes: &[u8])
    ensures { IsFedMore hasher.old hasher.new bytes.now }
{
    if let Some(hasher) = hasher {
        hasher.feed_bytes(bytes);
    }
}

/// Makes the sidecar of the inventory in a folder. After the one at the top the object is whole.
pub(crate) fn make_sidecar<O: Io>(
    state: &mut State,
    object: Object,
    folder: InventoryFolder,
    out: &mut O,
) -> Result<Phase, Fault>
    requires fed { HasFedInventory state.old object }
    requires may { MayMake (O.states out.old).dest
        (in_folder folder (sidecar_name_of state.old.job.algorithm ∷ [])) }
    ensures turn { TakesTurn O.Io (0, 0)
        (phase.Carrying object (stage.Make (sidecar_part folder)))
        (state.old, out.old) (state.new, out.new) result }
{
    let path = sidecar_path(state.alloc, folder, state.job.algorithm)?;
    put_sidecar(state, &object, &path, out)?;
    match folder {
        InventoryFolder::Version => Ok(Phase::Carrying(object, Stage::Make(Part::Inventory))),
        InventoryFolder::Top => {
            state.hasher = Hasher::start(state.job.algorithm);
            Ok(after_object(state, object))
        }
    }
}

// What follows the last part.
fn after_object(state: &State, object: Object) -> Phase
    ensures { result ≡ after_last (job_of state.now.job) object }
{
    if state.job.layout.count() == 0 {
        Phase::Carrying(object, Stage::Rename)
    } else {
        Phase::Carrying(object, Stage::Tuples(0))
    }
}

// Makes the sidecar of the inventory whose text the hasher has been fed.
fn put_sidecar<O: Io>(
    state: &State,
    object: &Object,
    path: &NamePath,
    out: &mut O,
) -> Result<(), Fault>
    requires fed { HasFedInventory state.now object.now }
    requires may { MayMake (O.states out.old).dest path.now }
    ensures { WroteBy O.Io (makes_file path.now
        (sidecar_text state.now.job.algorithm (inventory_held state.now object.now)))
        out.old out.new result }
{
    let digest = inventory_digest(state, object)?;
    let text = sidecar_of(state.alloc, &digest)?;
    put_file(out, path, text.as_bytes())
}

// The digest of the inventory whose text the hasher has been fed.
fn inventory_digest(state: &State, object: &Object) -> Result<Digest, MemoryFault>
    requires { HasFedInventory state.now object.now }
    ensures { IfOk result (λ digest. digest
        ≡ digest_of state.now.job.algorithm (inventory_held state.now object.now)) }
{
    Ok(state.hasher.copy()?.end())
}

// The path of the sidecar in a folder (OCFL 1.1, "Inventory Digest").
fn sidecar_path(
    alloc: Global,
    folder: InventoryFolder,
    algorithm: Algorithm,
) -> Result<NamePath, MemoryFault>
    ensures { IfOk result (λ path. path ≡ in_folder folder (sidecar_name_of algorithm ∷ [])) }
{
    path_in(alloc, folder, algorithm.sidecar_name())
}

// The path of what has this name in a folder.
fn path_in(
    alloc: Global,
    folder: InventoryFolder,
    name: WellKnownName,
) -> Result<NamePath, MemoryFault>
    ensures { IfOk result (λ path. path ≡ in_folder folder (known_text name ∷ [])) }
{
    match folder {
        InventoryFolder::Version => NamePath::of_known(
            alloc,
            &[WellKnownName::Staging, WellKnownName::Version, name],
        ),
        InventoryFolder::Top => NamePath::of_known(alloc, &[WellKnownName::Staging, name]),
    }
}
