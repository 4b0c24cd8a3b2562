//! The destination has to hold a storage root of this program and layout, or none, which is then
//! made.
#![tactic(auto, using(crate::proofs::RootTurns::root_rules))]

ghost use Rattle.std.specs.Prelude.{◌≡◌, ◌<◌, None, Some, IfErr, IfOk, OnOk, false, true};
ghost use Rattle.pt_name.specs.Tuples.{Tuples};
ghost use Rattle.pt_object.specs.Script.{MakeFile, MakeFolder};
ghost use Rattle.pt_object.specs.Scripts.{staging as staging_path};
ghost use Rattle.pt_plan.specs.Enabled.{MayMakeRootItem};
ghost use Rattle.pt_plan.specs.RootNumbers.{configuration_number, root_file_count};
ghost use Rattle.pt_plan.specs.RootNumbers.{root_folder_count, root_item_count};
ghost use Rattle.pt_plan.specs.Roots.{storage_root};
ghost use Rattle.pt_plan.specs.TurnStart.{after_file as after_file_of, after_item as after_item_of};
ghost use Rattle.pt_plan.specs.declared.phase.Opening.TheVariants as opening;
ghost use Rattle.pt_plan.specs.declared.phase.Phase.TheVariants as phase;
ghost use Rattle.pt_plan.specs.Turn.{FailsUnchanged};
ghost use Rattle.pt_tree.specs.Dest.{IsKindAt, MayMake, MayMove};
ghost use Rattle.pt_tree.specs.declared.kind.Kind.TheVariants as kind;
ghost use Rattle.pt_state.specs.Turns.{TakesTurn};
ghost use Rattle.pt_make.specs.Root.{IsFileAt, IsItemAt, IsRootItem, configuration, inner_folder};
ghost use Rattle.pt_make.specs.Root.{looks_at_file, outer_folder};

use crate::placing::rename_staging;
use pt_object::{WellKnownName, root_files};
use pt_plan::kinds::{is_dir, is_file};
use pt_plan::{Fault, Opening, Phase};
use pt_state::files::put_file;
use pt_state::paths::{in_staging, in_storage_root};
use pt_state::{Io, State};
use pt_tree::{Kind, MemoryFault, NamePath};
use std::alloc::Global;

// The items that a storage root is made of: first the folders on the way to the layout's
// configuration, then the files.
const FOLDERS: u8 = 3;

const FILES: u8 = 3;

const LAST_ITEM: u8 = FOLDERS + FILES - 1;

// The number of the layout's configuration among the files of a root: it is the last one.
const CONFIGURATION: usize = 2;

const LAST_FILE: usize = CONFIGURATION;

/// Asks whether `staging` is there.
///
/// Halts for `StagingLeft` where it is, for `Dest` where that can't be asked, and for `Memory`
/// where a growth is refused.
pub fn look_at_staging<O: Io>(state: &State, out: &mut O) -> Result<Phase, Fault>
    ensures turn { TakesTurn O.Io (0, 1) (phase.Opening opening.Staging)
        (state.now, out.old) (state.now, out.new) result }
{
    let path = NamePath::of_known(state.alloc, &[WellKnownName::Staging])?;
    match out.kind(&path)? {
        None => Ok(Phase::Opening(Opening::Root)),
        Some(_) => Err(Fault::StagingLeft),
    }
}

/// Asks whether the storage root is there.
///
/// Halts for `Target` where what stands there is no directory, for `Dest` where that can't be
/// asked, and for `Memory` where a growth is refused.
pub fn look_at_root<O: Io>(state: &State, out: &mut O) -> Result<Phase, Fault>
    ensures turn { TakesTurn O.Io (0, 1) (phase.Opening opening.Root)
        (state.now, out.old) (state.now, out.new) result }
{
    let path = NamePath::of_known(state.alloc, &[WellKnownName::StorageRoot])?;
    match out.kind(&path)? {
        None => Ok(Phase::Opening(Opening::RootMake(0))),
        Some(Kind::Dir) => Ok(Phase::Opening(Opening::RootCheck(0))),
        Some(_) => Err(Fault::Target),
    }
}

/// Makes one item of a storage root in `staging`: first the directories of the layout's
/// configuration, then the three files, of which the declaration comes last.
///
/// Halts for `Dest` where the item can't be made, and for `Memory` where a growth is refused. A
/// file that was begun may be left then.
pub fn make_root<O: Io>(state: &State, item: u8, out: &mut O) -> Result<Phase, Fault>
    requires may { MayMakeRootItem (O.states out.old).dest state.now.job.layout item }
    requires item { item < root_item_count }
    ensures turn { TakesTurn O.Io (0, 0) (phase.Opening (opening.RootMake item))
        (state.now, out.old) (state.now, out.new) result }
{
    if item < FOLDERS {
        let path = root_folder(state.alloc, item)?;
        return make_folder(state, item, &path, out);
    }
    let files = root_files(state.alloc, state.job.layout)?;
    let Some((path, bytes)) = files.get((LAST_ITEM - item) as usize) else {
        unreachable!()
    };
    let whole = in_staging(state.alloc, path)?;
    create_file(state, item, &whole, bytes, out)
}

fn make_folder<O: Io>(state: &State, item: u8, path: &NamePath, out: &mut O) -> Result<Phase, Fault>
    requires may { MayMake (O.states out.old).dest path.now }
    requires here { IsItemAt state.now.job.layout item (MakeFolder path.now) }
    ensures turn { TakesTurn O.Io (0, 0) (phase.Opening (opening.RootMake item))
        (state.now, out.old) (state.now, out.new) result }
{
    out.mkdir(path)?;
    Ok(after_item(item))
}

fn create_file<O: Io>(
    state: &State,
    item: u8,
    path: &NamePath,
    bytes: &[u8],
    out: &mut O,
) -> Result<Phase, Fault>
    requires may { MayMake (O.states out.old).dest path.now }
    requires here { IsItemAt state.now.job.layout item (MakeFile path.now bytes.now) }
    ensures turn { TakesTurn O.Io (0, 0) (phase.Opening (opening.RootMake item))
        (state.now, out.old) (state.now, out.new) result }
{
    put_file(out, path, bytes)?;
    Ok(after_item(item))
}

// The path in `staging` of a directory of a storage root.
fn root_folder(alloc: Global, item: u8) -> Result<NamePath, MemoryFault>
    requires { item < root_folder_count }
    ensures { (tuples : Tuples) → IfOk result (λ path. IsRootItem tuples item (MakeFolder path)) }
{
    if item == 0 {
        NamePath::of_known(alloc, &[WellKnownName::Staging])
    } else if item == 1 {
        NamePath::of_known(alloc, &[WellKnownName::Staging, WellKnownName::Extensions])
    } else {
        NamePath::of_known(
            alloc,
            &[
                WellKnownName::Staging,
                WellKnownName::Extensions,
                WellKnownName::Extension,
            ],
        )
    }
}

// What follows an item.
fn after_item(item: u8) -> Phase
    requires { item < root_item_count }
    ensures { result ≡ after_item_of item }
{
    if item == LAST_ITEM {
        Phase::Opening(Opening::RootRename)
    } else {
        Phase::Opening(Opening::RootMake(item + 1))
    }
}

/// Renames `staging` to the storage root.
///
/// Halts for `Dest` where it can't be renamed, and for `Memory` where a growth is refused; what the
/// destination tells is as it was then.
pub fn rename_root<O: Io>(state: &State, out: &mut O) -> Result<Phase, Fault>
    requires { MayMove (O.states out.old).dest staging_path storage_root }
    ensures turn { TakesTurn O.Io (0, 0) (phase.Opening opening.RootRename)
        (state.now, out.old) (state.now, out.new) result }
{
    let to = NamePath::of_known(state.alloc, &[WellKnownName::StorageRoot])?;
    rename_staging(state.alloc, &to, out)?;
    Ok(Phase::Opening(Opening::OpenRoot))
}

/// Compares one of the three files of the storage root that stands with what this program writes.
///
/// Halts for `Target` where no file stands there, or one with other bytes, or where one of the
/// folders on the way to it is none itself, as a link to one is; for `Dest` where that can't be
/// asked or the file not be read, and for `Memory` where a growth is refused. What is held stays
/// then, but for the block.
pub fn check_root<O: Io>(state: &mut State, file: usize, out: &mut O) -> Result<Phase, Fault>
    requires { file < root_file_count }
    ensures turn { TakesTurn O.Io (0, looks_at_file file) (phase.Opening (opening.RootCheck file))
        (state.old, out.old) (state.new, out.new) result }
{
    let files = root_files(state.alloc, state.job.layout)?;
    let Some((path, bytes)) = files.get(file) else {
        unreachable!()
    };
    let whole = in_storage_root(state.alloc, path)?;
    if file == CONFIGURATION {
        return check_configuration(state, &whole, bytes, out);
    }
    compare(state, file, &whole, bytes, out)
}

// The same of the layout's configuration, the last of these files, with the folders that it lies
// in. Each is asked for itself: by the configuration's path the system would go through a link that
// stands in a folder's place.
fn check_configuration<O: Io>(
    state: &mut State,
    path: &NamePath,
    bytes: &[u8],
    out: &mut O,
) -> Result<Phase, Fault>
    requires here { IsFileAt state.old.job.layout configuration_number path.now bytes.now }
    ensures turn { TakesTurn O.Io (0, 4) (phase.Opening (opening.RootCheck configuration_number))
        (state.old, out.old) (state.new, out.new) result }
{
    let outer = NamePath::of_known(
        state.alloc,
        &[WellKnownName::StorageRoot, WellKnownName::Extensions],
    )?;
    let inner = NamePath::of_known(
        state.alloc,
        &[
            WellKnownName::StorageRoot,
            WellKnownName::Extensions,
            WellKnownName::Extension,
        ],
    )?;
    if !has_folders(&outer, &inner, out)? {
        return Err(Fault::Target);
    }
    compare(state, CONFIGURATION, path, bytes, out)
}

// Whether the two folders that the layout's configuration lies in stand in the destination, the
// outer one asked first.
fn has_folders<O: Io>(outer: &NamePath, inner: &NamePath, out: &mut O) -> Result<bool, Fault>
    requires outer { outer.now ≡ outer_folder }
    requires inner { inner.now ≡ inner_folder }
    ensures stays { OnOk result (O.states out.new ≡ O.states out.old) }
    ensures outer { IfOk result (λ has. has ≡ true
        → IsKindAt (O.states out.old).dest outer_folder (Some kind.Dir)) }
    ensures inner { IfOk result (λ has. has ≡ true
        → IsKindAt (O.states out.old).dest inner_folder (Some kind.Dir)) }
    ensures lacks { IfOk result (λ has. has ≡ false
        → IsKindAt (O.states out.old).dest configuration None) }
    ensures failed { IfErr result (λ why. FailsUnchanged why (O.states out.old)
        (O.states out.new)) }
    ensures few { O.within 0 2 out.old out.new }
{
    let here = out.kind(outer)?;
    if !is_dir(here) {
        return Ok(false);
    }
    let here = out.kind(inner)?;
    Ok(is_dir(here))
}

fn compare<O: Io>(
    state: &mut State,
    file: usize,
    path: &NamePath,
    bytes: &[u8],
    out: &mut O,
) -> Result<Phase, Fault>
    requires here { IsFileAt state.old.job.layout file path.now bytes.now }
    ensures turn { TakesTurn O.Io (0, 2) (phase.Opening (opening.RootCheck file))
        (state.old, out.old) (state.new, out.new) result }
{
    let here = out.kind(path)?;
    if !is_file(here) {
        return Err(Fault::Target);
    }
    out.peek(path, &mut state.block)?;
    if state.block.as_slice() != bytes {
        return Err(Fault::Target);
    }
    Ok(after_file(file))
}

// What follows a file.
fn after_file(file: usize) -> Phase
    requires { file < root_file_count }
    ensures { result ≡ after_file_of file }
{
    if file == LAST_FILE {
        Phase::Opening(Opening::OpenRoot)
    } else {
        Phase::Opening(Opening::RootCheck(file + 1))
    }
}
