//! The storage root that stands has to be one of this layout, before anything is compared. `Target`
//! is answered only where something else stands than nothing or a directory with the three files of
//! this layout (`IsOfAnother`), after the store was found to be one with a good prefix.
ghost use Rattle.std.specs.Prelude.{◌<◌, IfOk, length};
ghost use Rattle.std.specs.Option.{ForSome};
ghost use Rattle.pt_audit.specs.Failing.{RootFailsAs};
ghost use Rattle.pt_audit.specs.Layout.{IsFolder, IsSo, TellsFile, TellsLayout};
ghost use Rattle.pt_compare.specs.Root.{KeepsRoot};
ghost use Rattle.pt_tree.specs.Source.{tree_in};
ghost use Rattle.pt_name.specs.Tuples.{IsLayout};
ghost use Rattle.pt_tree.specs.Failures.{IsCounted};
ghost use Rattle.pt_state.specs.States.{job_of};

use pt_compare::find_kind;
use pt_move::Job;
use pt_object::{WellKnownName, root_files};
use pt_plan::Fault;
use pt_plan::kinds::{is_dir, is_file};
use pt_state::paths::in_storage_root;
use pt_tree::{Block, NamePath, Source, TreeFault};
use std::alloc::Global;

/// Whether a run could go on with the root that stands: nothing stands at `ocfl`, or a directory
/// with the three files of this layout (OCFL 1.1, "Root Structure"; extension 0003). `Target` where
/// something else does; `Dest` where the root can't be read, or there is no folder for it; `Memory`
/// where a growth was refused.
pub(crate) fn check_layout<R: Source>(alloc: Global, root: &mut R, job: &Job) -> Result<(), Fault>
    requires { IsLayout job.now.layout }
    ensures layout { ForSome (tree_in (R.told root.old)) (TellsLayout (job_of job.now) result) }
    ensures root { KeepsRoot R.told R.keeps root.old root.new }
    ensures failures { RootFailsAs result (R.failed root.old) (R.failed root.new) }
{
    let same = is_of_layout(alloc, root, job).map_err(Fault::of_dest)?;
    if same { Ok(()) } else { Err(Fault::Target) }
}

// Whether nothing stands at `ocfl`, or a directory with the files of this layout.
fn is_of_layout<R: Source>(alloc: Global, root: &mut R, job: &Job) -> Result<bool, TreeFault>
    requires { IsLayout job.now.layout }
    ensures layout { IfOk result (λ same. ForSome (tree_in (R.told root.old))
        (IsSo (job_of job.now) same)) }
    ensures root { KeepsRoot R.told R.keeps root.old root.new }
    ensures failures { IsCounted (R.failed root.old) (R.failed root.new) result }
{
    let _entries = root.list(&NamePath::new(alloc))?;
    let top = NamePath::of_known(alloc, &[WellKnownName::StorageRoot])?;
    let here = find_kind(alloc, root, &top)?;
    if here.is_none() {
        return Ok(true);
    }
    if is_dir(here) {
        has_files(alloc, root, job)
    } else {
        Ok(false)
    }
}

// Whether the layout's files stand in the root, each with its bytes.
fn has_files<R: Source>(alloc: Global, root: &mut R, job: &Job) -> Result<bool, TreeFault>
    requires layout { IsLayout job.now.layout }
    requires folder { ForSome (tree_in (R.told root.old)) IsFolder }
    ensures layout { IfOk result (λ same. ForSome (tree_in (R.told root.old))
        (IsSo (job_of job.now) same)) }
    ensures root { KeepsRoot R.told R.keeps root.old root.new }
    ensures failures { IsCounted (R.failed root.old) (R.failed root.new) result }
{
    let files = root_files(alloc, job.layout)?;
    // The files of a storage root: see `root_file_count` of pt_plan.
    for i in 0..3 {
        let Some((path, bytes)) = files.get(i) else {
            unreachable!()
        };
        let same = has_file(alloc, root, path, bytes)?;
        if !same {
            return Ok(false);
        }
    }
    Ok(true)
}

// Whether a file of these bytes, of which there are fewer than a block holds, stands at a path of
// the root.
fn has_file<R: Source>(
    alloc: Global,
    root: &mut R,
    path: &NamePath,
    bytes: &[u8],
) -> Result<bool, TreeFault>
    requires { length bytes.now < 8192 }
    ensures there { IfOk result (λ same. ForSome (tree_in (R.told root.old))
        (TellsFile path.now bytes.now same)) }
    ensures root { KeepsRoot R.told R.keeps root.old root.new }
    ensures failures { IsCounted (R.failed root.old) (R.failed root.new) result }
{
    let whole = in_storage_root(alloc, path)?;
    let here = find_kind(alloc, root, &whole)?;
    if !is_file(here) {
        return Ok(false);
    }
    let mut block = Block::new();
    root.open(&whole)?;
    root.next(&mut block)?;
    Ok(block.as_slice() == bytes)
}
