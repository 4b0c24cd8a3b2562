//! An object of a store, held against what stands at its place by what both sources show of its
//! files, with the digests that the inventory there claims for them.
ghost use Rattle.std.specs.Prelude.{◌≡◌, ◌++◌, [], All, IfOk, IfSome, Some, cond, map};
ghost use Rattle.std.specs.Option.{ForSome, option_map};
ghost use Rattle.std.specs.String.{string_bytes};
ghost use Rattle.pt_compare.specs.Beside.{IsKnown};
ghost use Rattle.pt_compare.specs.Found.{HaltsAs, version_inventory};
ghost use Rattle.pt_compare.specs.Marks.{inside};
ghost use Rattle.pt_compare.specs.Meeting.{both};
ghost use Rattle.pt_compare.specs.Root.{KeepsRoot, Stands};
ghost use Rattle.pt_object.specs.Distinct.{content_of_row, distinct};
ghost use Rattle.pt_plan.specs.TurnStart.{is_dir_kind};
ghost use Rattle.pt_quick.specs.Quick.{AreScanned, ClaimsIn, CouldBeOf, IsQuick, IsTextAt};
ghost use Rattle.pt_tree.specs.Failures.{IsCounted};
ghost use Rattle.pt_tree.specs.Source.{CanOpen, IsSeen, tree_in};
ghost use Rattle.pt_tree.specs.declared.kind.Kind.TheVariants as kind;

use crate::claimed::{ClaimedFiles, claimed_rows};
use pt_compare::{Comparison, ScannedObject, compare, look_at_place, open_standing, rest_of};
use pt_object::WellKnownName;
use pt_plan::Fault;
use pt_plan::kinds::is_dir;
use pt_tree::{Block, Kind, MemoryFault, NamePath, Source, TreeFault};
use std::alloc::Global;

/// Holds an object against what stands at its place, as `compare` does, but with the digests that
/// the inventory in the version's folder there claims for its files: so it is `Same` just where it
/// would be for some digests. Where that inventory claims none, it is what `compare` finds.
///
/// Source and root may show less of files than they hold, as their lengths alone. `Source` where a
/// call of the source failed, `Dest` where one of the root did, and `Memory` where a growth was
/// refused, or a file has more than 2^77 bytes.
pub fn look_over<S: Source, R: Source>(
    alloc: Global,
    source: &mut S,
    root: &mut R,
    object: &ScannedObject<'_>,
) -> Result<Comparison, Fault>
    requires rows { AreScanned (tree_in (S.told source.old)) object.now }
    requires files { All (λ row. CanOpen (S.told source.old) (object.now.from.now ++ row.path))
        object.now.rows.now }
    requires known { IsKnown (tree_in (S.told source.old)) (tree_in (R.told root.old)) object.now }
    ensures source { KeepsRoot S.told S.keeps source.old source.new }
    ensures root { KeepsRoot R.told R.keeps root.old root.new }
    ensures failures { HaltsAs result (both (S.failed source.old) (R.failed root.old))
        (both (S.failed source.new) (R.failed root.new)) }
    ensures found { IfOk result (λ finding. ForSome (tree_in (S.told source.old))
        (λ s. ForSome (tree_in (R.told root.old))
        (λ r. IsQuick object.now s (inside r object.now.to.now) finding))) }
{
    let here = look_at_place(alloc, root, object).map_err(Fault::of_dest)?;
    let Some(kind) = here else {
        return Ok(Comparison::Absent);
    };
    match claimed_at(alloc, root, object, kind).map_err(Fault::of_dest)? {
        Some(files) => compare(
            alloc,
            source,
            root,
            &ScannedObject {
                id: object.id,
                rows: &files.rows,
                contents: &files.contents,
                alike: 0,
                stands: is_dir(Some(kind)),
                algorithm: object.algorithm,
                from: object.from,
                to: object.to,
            },
        ),
        None => compare(alloc, source, root, object),
    }
}

// What the inventory in the version's folder claims for the files of an object, at whose place
// something of this kind stands.
fn claimed_at<R: Source>(
    alloc: Global,
    root: &mut R,
    object: &ScannedObject<'_>,
    kind: Kind,
) -> Result<Option<ClaimedFiles>, TreeFault>
    requires { IsSeen (tree_in (R.told root.old)) object.now.to.now (Some kind) }
    ensures root { KeepsRoot R.told R.keeps root.old root.new }
    ensures failures { IsCounted (R.failed root.old) (R.failed root.new) result }
    ensures claims { IfOk result (λ claimed. ClaimsIn (tree_in (R.told root.old)) object.now
        (option_map (λ files. files.rows) claimed)) }
    ensures could { IfOk result (λ claimed. IfSome claimed
        (λ files. CouldBeOf object.now files.rows)) }
    ensures contents { IfOk result (λ claimed. IfSome claimed (λ files. files.contents
        ≡ map content_of_row (distinct files.rows))) }
{
    let mut folder = folder_on(alloc, object.to, kind)?;
    let path = inventory_path(alloc, object.to)?;
    match text_at(alloc, root, &mut folder, &path)? {
        Some(text) => Ok(claimed_rows(alloc, text.as_str(), object.rows, object.algorithm)?),
        None => Ok(None),
    }
}

// The folder from which on the way below a place is looked at: the place, if this kind, which
// stands there, is a directory; else the top.
fn folder_on(alloc: Global, place: &NamePath, kind: Kind) -> Result<NamePath, MemoryFault>
    ensures { IfOk result (λ folder. folder ≡ cond (is_dir_kind (Some kind)) place.now []) }
{
    if is_dir(Some(kind)) {
        place.copy()
    } else {
        Ok(NamePath::new(alloc))
    }
}

// The path of the inventory in the version's folder of the object at a place.
fn inventory_path(alloc: Global, place: &NamePath) -> Result<NamePath, MemoryFault>
    ensures { IfOk result (λ path. path ≡ place.now ++ version_inventory) }
{
    let below = NamePath::of_known(alloc, &[WellKnownName::Version, WellKnownName::Inventory])?;
    place.concat(below.names())
}

// The text of the file at a path, if one stands there and is a text; the folder is one that is
// known to stand, as `open_standing` has it.
fn text_at<R: Source>(
    alloc: Global,
    root: &mut R,
    folder: &mut NamePath,
    path: &NamePath,
) -> Result<Option<String>, TreeFault>
    requires { Stands (tree_in (R.told root.old)) (folder.old, kind.Dir) }
    ensures root { KeepsRoot R.told R.keeps root.old root.new }
    ensures failures { IsCounted (R.failed root.old) (R.failed root.new) result }
    ensures text { IfOk result (λ text. IsTextAt (tree_in (R.told root.old)) path.now
        (option_map string_bytes text)) }
{
    if !open_standing(alloc, root, folder, path)? {
        return Ok(None);
    }
    let mut block = Block::new();
    let bytes = rest_of(alloc, root, &mut block)?;
    Ok(String::from_utf8(bytes).ok())
}
