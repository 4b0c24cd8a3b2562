//! An object of a store, held against what stands at its place in a storage root.
ghost use Rattle.std.specs.Prelude.{◌≡◌, ◌++◌, IfOk, map, true, All, IfErr, None, OnOk};
ghost use Rattle.std.specs.Option.{ForSome};
ghost use Rattle.pt_compare.specs.Beside.{AreAlike, IsKnown, IsKnownToStand};
ghost use Rattle.pt_compare.specs.Found.{HaltsAs, IsFound, LeavesExtra, MeetsInventories};
ghost use Rattle.pt_compare.specs.Found.{MeetsObject, sought_of, texts_of_object};
ghost use Rattle.pt_compare.specs.Marks.{inside, marks_of, marks_over};
ghost use Rattle.pt_compare.specs.Meeting.{FailsAs, FailsInRoot, MeetsFrom, MeetsIn, NotedStand};
ghost use Rattle.pt_compare.specs.Meeting.{both};
ghost use Rattle.pt_compare.specs.Parts.{content_items, files_of, first_items, fronts, last_items};
ghost use Rattle.pt_compare.specs.Parts.{way_items};
ghost use Rattle.pt_compare.specs.Ways.{AreMet};
ghost use Rattle.pt_compare.specs.Root.{KeepsRoot};
ghost use Rattle.pt_tree.specs.Failures.{IsCounted};
ghost use Rattle.pt_plan.specs.declared.fault.Fault.TheVariants as fault;
ghost use Rattle.pt_object.specs.Distinct.{content_of_row, distinct};
ghost use Rattle.pt_object.specs.FilePaths.{row_paths};
ghost use Rattle.pt_tree.specs.PathOrder.{part_in_order};
ghost use Rattle.pt_tree.specs.Source.{CanOpen, IsSeen, tree_in};

use crate::entries::Entries;
use crate::meeting::{Stored, meet_bytes, meet_folder, meet_inventory, meet_stored};
use crate::paths::{content_path, join};
use crate::stop::Stop;
use crate::{Comparison, Difference, ScannedObject, Why, find_kind};
use pt_object::{WellKnownName, object_declaration, sidecar};
use pt_plan::Fault;
use pt_plan::names::alike_names;
use pt_tree::{Kind, NamePath, Source, TreeFault};
use std::alloc::Global;

/// Holds an object against what stands at its place, in the order in which a run makes it (OCFL
/// 1.1, "Object Structure"): the place itself, the declaration, the version's folder, its contents,
/// its inventory and sidecar, and those at the top. It finds the first of them that doesn't stand
/// so; else the first entry that stands there beside them, by the order of the texts of the paths;
/// else that just the object stands. The inventory in the version's folder may be any that a run
/// could make of these files, with whatever moment, user and message; the one at the top has to be
/// the same as that, byte for byte.
///
/// What is known to be alike isn't read again. `Source` where a call of the source failed, `Dest`
/// where one of the root did, and `Memory` where a growth was refused, or a file has more than 2^77
/// bytes.
pub fn compare<S: Source, R: Source>(
    alloc: Global,
    source: &mut S,
    root: &mut R,
    object: &ScannedObject<'_>,
) -> Result<Comparison, Fault>
    requires contents { object.now.contents.now
        ≡ map content_of_row (distinct object.now.rows.now) }
    requires order { part_in_order (row_paths object.now.rows.now) ≡ true }
    requires files { All (λ row. CanOpen (S.told source.old) (object.now.from.now ++ row.path))
        object.now.rows.now }
    requires known { IsKnown (tree_in (S.told source.old)) (tree_in (R.told root.old)) object.now }
    ensures source { KeepsRoot S.told S.keeps source.old source.new }
    ensures root { KeepsRoot R.told R.keeps root.old root.new }
    ensures failures { HaltsAs result (both (S.failed source.old) (R.failed root.old))
        (both (S.failed source.new) (R.failed root.new)) }
    ensures found { IfOk result (λ finding. ForSome (tree_in (S.told source.old))
        (λ s. ForSome (tree_in (R.told root.old))
        (λ r. IsFound (sought_of object.now s) (inside r object.now.to.now) finding))) }
{
    let here = look_at_place(alloc, root, object).map_err(Fault::of_dest)?;
    let Some(kind) = here else {
        return Ok(Comparison::Absent);
    };
    let mut entries = Entries::new(alloc);
    entries.add(&NamePath::new(alloc), kind)?;
    match meet_object(alloc, source, root, object, &mut entries) {
        Ok(()) => find_left_over(&entries),
        Err(Stop::Differs(difference)) => Ok(Comparison::Differs(difference)),
        Err(Stop::Fault(why)) => Err(why),
    }
}

/// The kind of what stands at an object's place; None where nothing does. What is known of it isn't
/// looked at. `Memory` where a growth was refused, else the fault of the look that failed.
pub fn look_at_place<R: Source>(
    alloc: Global,
    root: &mut R,
    object: &ScannedObject<'_>,
) -> Result<Option<Kind>, TreeFault>
    requires { IsKnownToStand (tree_in (R.told root.old)) object.now }
    ensures kind { IfOk result (λ here. IsSeen (tree_in (R.told root.old)) object.now.to.now here) }
    ensures same { R.told root.new ≡ R.told root.old }
    ensures failures { IsCounted (R.failed root.old) (R.failed root.new) result }
    ensures keeps { R.keeps root.old root.new }
{
    if object.stands {
        Ok(Some(Kind::Dir))
    } else {
        find_kind(alloc, root, object.to)
    }
}

// What is found where all of an object stands, and this is still noted beside it.
fn find_left_over(entries: &Entries) -> Result<Comparison, Fault>
    ensures halts { IfErr result (λ why. why ≡ fault.Memory) }
    ensures left { IfOk result (LeavesExtra (marks_of entries.now)) }
{
    match entries.first()? {
        Some(path) => {
            let why = Why::Extra;
            Ok(Comparison::Differs(Difference { path, why }))
        }
        None => Ok(Comparison::Same),
    }
}

// Meets all of an object.
fn meet_object<S: Source, R: Source>(
    alloc: Global,
    source: &mut S,
    root: &mut R,
    object: &ScannedObject<'_>,
    entries: &mut Entries,
) -> Result<(), Stop>
    requires contents { object.now.contents.now
        ≡ map content_of_row (distinct object.now.rows.now) }
    requires files { All (λ row. CanOpen (S.told source.old) (object.now.from.now ++ row.path))
        object.now.rows.now }
    requires alike { AreAlike (tree_in (S.told source.old)) (tree_in (R.told root.old)) object.now }
    requires noted { NotedStand (tree_in (R.told root.old)) object.now.to.now
        (marks_of entries.old) }
    ensures source { KeepsRoot S.told S.keeps source.old source.new }
    ensures root { KeepsRoot R.told R.keeps root.old root.new }
    ensures failures { FailsAs result (both (S.failed source.old) (R.failed root.old))
        (both (S.failed source.new) (R.failed root.new)) }
    ensures met { ForSome (tree_in (S.told source.old)) (λ s. ForSome (tree_in (R.told root.old))
        (λ r. MeetsObject (sought_of object.now s) (inside r object.now.to.now)
        (marks_of entries.old) (marks_of entries.new) result)) }
{
    meet_first(alloc, root, object.to, entries)?;
    meet_contents(alloc, source, root, object, entries)?;
    meet_inventories(alloc, root, object, entries)
}

// Meets the place itself, the declaration (OCFL 1.1, "Object Conformance Declaration") and the
// version's folder.
fn meet_first<R: Source>(
    alloc: Global,
    root: &mut R,
    place: &NamePath,
    entries: &mut Entries,
) -> Result<(), Stop>
    requires { NotedStand (tree_in (R.told root.old)) place.now (marks_of entries.old) }
    ensures root { KeepsRoot R.told R.keeps root.old root.new }
    ensures failures { FailsInRoot result (R.failed root.old) (R.failed root.new) }
    ensures met { MeetsIn (tree_in (R.told root.old)) place.now first_items
        (marks_of entries.old) (marks_of entries.new) result }
{
    meet_folder(root, place, entries, NamePath::new(alloc))?;
    let declaration = NamePath::of_known(alloc, &[WellKnownName::Declaration])?;
    meet_bytes(root, place, entries, declaration, object_declaration())?;
    let version = NamePath::of_known(alloc, &[WellKnownName::Version])?;
    meet_folder(root, place, entries, version)
}

// Meets the contents (OCFL 1.1, "Content Directory"), each with the folders on the way to it that
// are new.
fn meet_contents<S: Source, R: Source>(
    alloc: Global,
    source: &mut S,
    root: &mut R,
    object: &ScannedObject<'_>,
    entries: &mut Entries,
) -> Result<(), Stop>
    requires files { All (λ content. CanOpen (S.told source.old)
        (object.now.from.now ++ content.path)) object.now.contents.now }
    requires alike { AreAlike (tree_in (S.told source.old)) (tree_in (R.told root.old)) object.now }
    requires noted { NotedStand (tree_in (R.told root.old)) object.now.to.now
        (marks_of entries.old) }
    ensures source { KeepsRoot S.told S.keeps source.old source.new }
    ensures root { KeepsRoot R.told R.keeps root.old root.new }
    ensures failures { FailsAs result (both (S.failed source.old) (R.failed root.old))
        (both (S.failed source.new) (R.failed root.new)) }
    ensures met { MeetsFrom (tree_in (S.told source.old)) (tree_in (R.told root.old))
        object.now.to.now
        (λ s. content_items None (files_of s object.now.from.now object.now.contents.now))
        (marks_over entries.old entries.new) result }
    ensures stands { OnOk result (NotedStand (tree_in (R.told root.new)) object.now.to.now
        (marks_of entries.new)) }
{
    let mut last = None;
    for i in 0..object.contents.len() {
        let Some(content) = object.contents.get(i) else {
            unreachable!()
        };
        meet_way(
            alloc,
            root,
            object.to,
            entries,
            &Way {
                last: &last,
                path: &content.path,
            },
        )?;
        let path = content_path(alloc, content.path.names())?;
        let is_alike = i < object.alike;
        let from = join(object.from, &content.path)?;
        meet_stored(
            source,
            root,
            object.to,
            entries,
            &Stored {
                path: &path,
                from: &from,
                is_alike,
            },
        )?;
        last = Some(path);
    }
    Ok(())
}

// The way to a content, by its logical path, from where the content that was met last is stored, if
// there was one.
#[derive(Drop)]
struct Way<'a> {
    last: &'a Option<NamePath>,
    path: &'a NamePath,
}

// Meets the folders on the way to a content that the last content didn't need.
fn meet_way<R: Source>(
    alloc: Global,
    root: &mut R,
    place: &NamePath,
    entries: &mut Entries,
    way: &Way<'_>,
) -> Result<(), Stop>
    requires { NotedStand (tree_in (R.told root.old)) place.now (marks_of entries.old) }
    ensures root { KeepsRoot R.told R.keeps root.old root.new }
    ensures failures { FailsInRoot result (R.failed root.old) (R.failed root.new) }
    ensures met { MeetsIn (tree_in (R.told root.old)) place.now
        (way_items way.now.last.now (fronts way.now.path.now))
        (marks_of entries.old) (marks_of entries.new) result }
{
    let path = way.path;
    let whole = content_path(alloc, path.names())?;
    let met = folders_met(way.last, &whole);
    // From `met` on would be the same. All are gone through since the definition (`way_items`)
    // leaves out the folders that were met one by one: so each round of the loop is a step of it.
    for names in 0..path.len() {
        let is_met = names < met;
        if is_met {
            continue;
        }
        let folder = content_path(alloc, &path.names()[..names])?;
        meet_folder(root, place, entries, folder)?;
    }
    Ok(())
}

// How many of the folders on the way to a stored content are on the way to the one that was met
// last. The names are compared once.
fn folders_met(last: &Option<NamePath>, path: &NamePath) -> usize
    ensures { AreMet last.now path.now result }
{
    let Some(last) = last else {
        return 0;
    };
    let alike = alike_names(path.names(), last.names());
    alike.saturating_sub(1)
}

// Meets the inventories and their sidecars (OCFL 1.1, "Inventory", "Inventory Digest").
fn meet_inventories<R: Source>(
    alloc: Global,
    root: &mut R,
    object: &ScannedObject<'_>,
    entries: &mut Entries,
) -> Result<(), Stop>
    requires contents { object.now.contents.now
        ≡ map content_of_row (distinct object.now.rows.now) }
    requires noted { NotedStand (tree_in (R.told root.old)) object.now.to.now
        (marks_of entries.old) }
    ensures root { KeepsRoot R.told R.keeps root.old root.new }
    ensures failures { FailsInRoot result (R.failed root.old) (R.failed root.new) }
    ensures met { ForSome (tree_in (R.told root.old))
        (λ r. MeetsInventories object.now.algorithm (texts_of_object object.now)
        (inside r object.now.to.now) (marks_of entries.old) (marks_of entries.new) result) }
{
    let path = NamePath::of_known(alloc, &[WellKnownName::Version, WellKnownName::Inventory])?;
    let stands = meet_inventory(alloc, root, object, entries, path)?;
    meet_copies(alloc, root, object, entries, stands.as_str())
}

// Meets what follows from the inventory in the version's folder: its sidecar, the same inventory at
// the top, and the sidecar there.
fn meet_copies<R: Source>(
    alloc: Global,
    root: &mut R,
    object: &ScannedObject<'_>,
    entries: &mut Entries,
    text: &str,
) -> Result<(), Stop>
    requires { NotedStand (tree_in (R.told root.old)) object.now.to.now (marks_of entries.old) }
    ensures root { KeepsRoot R.told R.keeps root.old root.new }
    ensures failures { FailsInRoot result (R.failed root.old) (R.failed root.new) }
    ensures met { MeetsIn (tree_in (R.told root.old)) object.now.to.now
        (last_items object.now.algorithm text.now)
        (marks_of entries.old) (marks_of entries.new) result }
{
    let line = sidecar(alloc, text, object.algorithm)?;
    let name = object.algorithm.sidecar_name();
    let path = NamePath::of_known(alloc, &[WellKnownName::Version, name])?;
    meet_bytes(root, object.to, entries, path, line.as_bytes())?;
    let path = NamePath::of_known(alloc, &[WellKnownName::Inventory])?;
    meet_bytes(root, object.to, entries, path, text.as_bytes())?;
    let path = NamePath::of_known(alloc, &[name])?;
    meet_bytes(root, object.to, entries, path, line.as_bytes())
}
