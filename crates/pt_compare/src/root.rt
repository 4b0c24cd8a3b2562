//! The storage root that stands, as an audit reads it.
ghost use Rattle.std.specs.Prelude.{◌≡◌, IfOk, IsFalse, IsTrue};
ghost use Rattle.pt_compare.specs.Beside.{OpensStanding};
ghost use Rattle.pt_tree.specs.declared.kind.Kind.TheVariants as kind;
ghost use Rattle.pt_tree.specs.Failures.{IsCounted};
ghost use Rattle.pt_compare.specs.Root.{Lacks, Stands};
ghost use Rattle.pt_tree.specs.Source.{IsSeen, tree_in};

use pt_plan::kinds::{is_dir, is_file};
use pt_plan::names::alike_names;
use pt_tree::{Kind, Name, NamePath, Source, TreeFault};
use std::alloc::Global;

/// The kind of what stands at a path; None where nothing does, also below what is no directory.
/// Each entry on its way is looked at, from the top on, up to the first that isn't a directory.
/// `Memory` where a growth was refused, else the fault of the look that failed.
pub fn find_kind<R: Source>(
    alloc: Global,
    root: &mut R,
    path: &NamePath,
) -> Result<Option<Kind>, TreeFault>
    ensures kind { IfOk result (λ here. IsSeen (tree_in (R.told root.old)) path.now here) }
    ensures same { R.told root.new ≡ R.told root.old }
    ensures failures { IsCounted (R.failed root.old) (R.failed root.new) result }
    ensures keeps { R.keeps root.old root.new }
{
    let mut way = NamePath::new(alloc);
    let mut here = Some(Kind::Dir);
    for name in path.names() {
        if !is_dir(here) {
            return Ok(None);
        }
        way.push(name.copy()?)?;
        here = root.kind(&way)?;
    }
    Ok(here)
}

/// Opens the file at a path of a root, if one stands there; whether it does.
///
/// Each folder on its way is looked at, but for those that lead to a folder that is known to stand.
/// The folder of the file is that one from then on, if it isn't above it. `Memory` where a growth
/// was refused, else the fault of the look or the opening that failed.
pub fn open_standing<R: Source>(
    alloc: Global,
    root: &mut R,
    folder: &mut NamePath,
    path: &NamePath,
) -> Result<bool, TreeFault>
    requires { Stands (tree_in (R.told root.old)) (folder.old, kind.Dir) }
    ensures opened { IfOk result (OpensStanding path.now (R.told root.old) (R.told root.new)) }
    ensures folder { Stands (tree_in (R.told root.new)) (folder.new, kind.Dir) }
    ensures tree { tree_in (R.told root.new) ≡ tree_in (R.told root.old) }
    ensures failures { IsCounted (R.failed root.old) (R.failed root.new) result }
    ensures keeps { R.keeps root.old root.new }
{
    let Some((above, _)) = path.split() else {
        return Ok(false);
    };
    if !stand_above(alloc, root, folder, above)? {
        return Ok(false);
    }
    if !is_file(root.kind(path)?) {
        return Ok(false);
    }
    root.open(path)?;
    Ok(true)
}

// Whether the folder of these names stands. It is the one that is known to stand from then on,
// unless that is below it.
fn stand_above<R: Source>(
    alloc: Global,
    root: &mut R,
    folder: &mut NamePath,
    above: &[Name],
) -> Result<bool, TreeFault>
    requires { Stands (tree_in (R.told root.old)) (folder.old, kind.Dir) }
    ensures stands { IfOk result (λ stand. IsTrue stand
        → Stands (tree_in (R.told root.old)) (above.now, kind.Dir)) }
    ensures lacks { IfOk result (λ stand. IsFalse stand
        → Lacks (tree_in (R.told root.old)) (above.now, kind.Dir)) }
    ensures folder { Stands (tree_in (R.told root.old)) (folder.new, kind.Dir) }
    ensures same { R.told root.new ≡ R.told root.old }
    ensures failures { IsCounted (R.failed root.old) (R.failed root.new) result }
    ensures keeps { R.keeps root.old root.new }
{
    let alike = alike_names(above, folder.names());
    let (first, rest) = above.split_at(alike);
    if rest.is_empty() {
        return Ok(true);
    }
    let mut way = NamePath::new(alloc).with_names(first)?;
    for name in rest {
        way.push(name.copy()?)?;
        if !is_dir(root.kind(&way)?) {
            return Ok(false);
        }
    }
    *folder = way;
    Ok(true)
}
