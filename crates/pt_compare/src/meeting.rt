//! Single entries of an object, held against what stands at its place: one that stands is taken out
//! of what is noted.
ghost use Rattle.std.specs.Prelude.{◌≡◌, ◌∷◌, [], true, OnOk, map};
ghost use Rattle.pt_compare.specs.Beside.{StandsAlike, TakesFile};
ghost use Rattle.pt_compare.specs.Found.{texts_of_object};
ghost use Rattle.pt_compare.specs.Marks.{is_kind_of, marks_of, marks_over, without_mark};
ghost use Rattle.pt_compare.specs.Meeting.{FailsAs, FailsInRoot, MeetsFrom, MeetsIn, MeetsTextIn};
ghost use Rattle.pt_compare.specs.Meeting.{NotedStand, OpensIn, both, why_for};
ghost use Rattle.pt_compare.specs.declared.difference.Why.TheVariants as why;
ghost use Rattle.pt_compare.specs.declared.stop.Stop.TheVariants as stop;
ghost use Rattle.pt_compare.specs.Root.{KeepsRoot};
ghost use Rattle.pt_object.specs.Distinct.{content_of_row, distinct};
ghost use Rattle.pt_object.specs.Script.{MakeFile, MakeFolder};
ghost use Rattle.pt_tree.specs.Source.{CanOpen, tree_in};
ghost use Rattle.pt_walk.specs.Left.{bytes_at};

use crate::both_sides::are_alike;
use crate::bytes::{are_the_rest, rest_of};
use crate::entries::{Entries, note};
use crate::inventories::text_if_made;
use crate::paths::join;
use crate::stop::{Stop, of_root, of_source};
use crate::{Difference, ScannedObject, Why};
use pt_tree::{Block, Kind, NamePath, Source};
use std::alloc::Global;

/// Meets a folder, and notes its entries.
pub(crate) fn meet_folder<R: Source>(
    root: &mut R,
    place: &NamePath,
    entries: &mut Entries,
    path: NamePath,
) -> Result<(), Stop>
    requires { NotedStand (tree_in (R.told root.old)) place.now (marks_of entries.old) }
    ensures root { KeepsRoot R.told R.keeps root.old root.new }
    ensures failures { FailsInRoot result (R.failed root.old) (R.failed root.new) }
    ensures met { MeetsIn (tree_in (R.told root.old)) place.now (MakeFolder path ∷ [])
        (marks_of entries.old) (marks_of entries.new) result }
{
    let here = entries.take(&path)?;
    if !is_of_kind(here, Kind::Dir) {
        return Err(wrong(path, here));
    }
    let whole = join(place, &path)?;
    let listing = root.list(&whole).map_err(of_root)?;
    note(entries, &path, &listing)?;
    Ok(())
}

/// Meets a file that has these bytes.
pub(crate) fn meet_bytes<R: Source>(
    root: &mut R,
    place: &NamePath,
    entries: &mut Entries,
    path: NamePath,
    bytes: &[u8],
) -> Result<(), Stop>
    requires { NotedStand (tree_in (R.told root.old)) place.now (marks_of entries.old) }
    ensures root { KeepsRoot R.told R.keeps root.old root.new }
    ensures failures { FailsInRoot result (R.failed root.old) (R.failed root.new) }
    ensures met { MeetsIn (tree_in (R.told root.old)) place.now (MakeFile path bytes.now ∷ [])
        (marks_of entries.old) (marks_of entries.new) result }
{
    open_file(root, place, entries, &path)?;
    let mut block = Block::new();
    if are_the_rest(root, &mut block, bytes).map_err(of_root)? {
        Ok(())
    } else {
        Err(other_bytes(path))
    }
}

/// A content that has to stand in an object: its path there, the source's file whose bytes it has,
/// and whether it is known to have them.
#[derive(Drop)]
pub(crate) struct Stored<'a> {
    pub path: &'a NamePath,
    pub from: &'a NamePath,
    pub is_alike: bool,
}

/// Meets a content; what is known to be alike isn't read again.
pub(crate) fn meet_stored<S: Source, R: Source>(
    source: &mut S,
    root: &mut R,
    place: &NamePath,
    entries: &mut Entries,
    stored: &Stored<'_>,
) -> Result<(), Stop>
    requires noted { NotedStand (tree_in (R.told root.old)) place.now (marks_of entries.old) }
    requires file { CanOpen (S.told source.old) stored.now.from.now }
    requires alike { stored.now.is_alike ≡ true → StandsAlike (tree_in (S.told source.old))
        (tree_in (R.told root.old)) place.now stored.now.path.now stored.now.from.now }
    ensures source { KeepsRoot S.told S.keeps source.old source.new }
    ensures root { KeepsRoot R.told R.keeps root.old root.new }
    ensures failures { FailsAs result (both (S.failed source.old) (R.failed root.old))
        (both (S.failed source.new) (R.failed root.new)) }
    ensures met { MeetsFrom (tree_in (S.told source.old)) (tree_in (R.told root.old)) place.now
        (λ s. MakeFile stored.now.path.now (bytes_at s stored.now.from.now) ∷ [])
        (marks_over entries.old entries.new) result }
    ensures noted { OnOk result (marks_of entries.new
        ≡ without_mark stored.now.path.now (marks_of entries.old)) }
{
    if stored.is_alike {
        take_file(entries, stored.path)
    } else {
        meet_content(source, root, place, entries, stored)
    }
}

// Takes a file out of what is noted.
fn take_file(entries: &mut Entries, path: &NamePath) -> Result<(), Stop>
    ensures taken { TakesFile path.now (marks_of entries.old) (marks_of entries.new) result }
{
    let here = entries.take(path)?;
    if is_of_kind(here, Kind::File) {
        Ok(())
    } else {
        Err(wrong(path.copy()?, here))
    }
}

// Meets a content by its bytes and those of its file.
fn meet_content<S: Source, R: Source>(
    source: &mut S,
    root: &mut R,
    place: &NamePath,
    entries: &mut Entries,
    stored: &Stored<'_>,
) -> Result<(), Stop>
    requires noted { NotedStand (tree_in (R.told root.old)) place.now (marks_of entries.old) }
    requires file { CanOpen (S.told source.old) stored.now.from.now }
    ensures source { KeepsRoot S.told S.keeps source.old source.new }
    ensures root { KeepsRoot R.told R.keeps root.old root.new }
    ensures failures { FailsAs result (both (S.failed source.old) (R.failed root.old))
        (both (S.failed source.new) (R.failed root.new)) }
    ensures met { MeetsFrom (tree_in (S.told source.old)) (tree_in (R.told root.old)) place.now
        (λ s. MakeFile stored.now.path.now (bytes_at s stored.now.from.now) ∷ [])
        (marks_over entries.old entries.new) result }
    ensures noted { OnOk result (marks_of entries.new
        ≡ without_mark stored.now.path.now (marks_of entries.old)) }
{
    open_file(root, place, entries, stored.path)?;
    source.open(stored.from).map_err(of_source)?;
    if are_alike(source, root)? {
        Ok(())
    } else {
        Err(other_bytes(stored.path.copy()?))
    }
}

/// Meets the inventory in the version's folder, which has to be one that a run could make of the
/// object's files, and gives its text.
pub(crate) fn meet_inventory<R: Source>(
    alloc: Global,
    root: &mut R,
    object: &ScannedObject<'_>,
    entries: &mut Entries,
    path: NamePath,
) -> Result<String, Stop>
    requires contents { object.now.contents.now
        ≡ map content_of_row (distinct object.now.rows.now) }
    requires noted { NotedStand (tree_in (R.told root.old)) object.now.to.now
        (marks_of entries.old) }
    ensures root { KeepsRoot R.told R.keeps root.old root.new }
    ensures failures { FailsInRoot result (R.failed root.old) (R.failed root.new) }
    ensures met { MeetsTextIn (tree_in (R.told root.old)) object.now.to.now path
        (texts_of_object object.now) (marks_over entries.old entries.new) result }
{
    open_file(root, object.to, entries, &path)?;
    let mut block = Block::new();
    let stands = rest_of(alloc, root, &mut block).map_err(of_root)?;
    match text_if_made(alloc, stands, object)? {
        Some(text) => Ok(text),
        None => Err(other_bytes(path)),
    }
}

// Takes a file out of what is noted, and opens it.
fn open_file<R: Source>(
    root: &mut R,
    place: &NamePath,
    entries: &mut Entries,
    path: &NamePath,
) -> Result<(), Stop>
    requires { NotedStand (tree_in (R.told root.old)) place.now (marks_of entries.old) }
    ensures root { KeepsRoot R.told R.keeps root.old root.new }
    ensures failures { FailsInRoot result (R.failed root.old) (R.failed root.new) }
    ensures opened { OpensIn (R.told root.old) (R.told root.new) place.now path.now
        (marks_over entries.old entries.new) result }
{
    let here = entries.take(path)?;
    if !is_of_kind(here, Kind::File) {
        return Err(wrong(path.copy()?, here));
    }
    let whole = join(place, path)?;
    root.open(&whole).map_err(of_root)?;
    Ok(())
}

// Whether something of this kind is noted.
fn is_of_kind(here: Option<Kind>, kind: Kind) -> bool
    ensures { result ≡ is_kind_of kind here }
{
    match (here, kind) {
        (Some(Kind::File), Kind::File) => true,
        (Some(Kind::Dir), Kind::Dir) => true,
        (Some(Kind::Other), Kind::Other) => true,
        _ => false,
    }
}

// What is wrong where another kind was noted, or nothing.
fn wrong(path: NamePath, here: Option<Kind>) -> Stop
    ensures { result ≡ stop.Differs (record { path = path; why = why_for here }) }
{
    let why = match here {
        Some(_) => Why::Kind,
        None => Why::Missing,
    };
    Stop::Differs(Difference { path, why })
}

// A file has other bytes.
fn other_bytes(path: NamePath) -> Stop
    ensures { result ≡ stop.Differs (record { path = path; why = why.Bytes }) }
{
    let why = Why::Bytes;
    Stop::Differs(Difference { path, why })
}
