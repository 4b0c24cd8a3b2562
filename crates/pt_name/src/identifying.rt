//! What the names of a site say of its object: its identifier, and its place.
#![tactic(auto, using(crate::proofs::Identified::identifying))]

ghost use Rattle.std.specs.Prelude.{◌≡◌, ◌<◌, ◌++◌, ◌∷◌, [], codes, length, IfOk, OnOk};
ghost use Rattle.std.specs.List.{concat};
ghost use Rattle.pt_name.specs.Identifying.{identification_by, identification_of, identifier_read};
ghost use Rattle.pt_name.specs.Identifying.{is_own_place, unless_reserved};
ghost use Rattle.pt_name.specs.Unmet.{without_any};
ghost use Rattle.pt_tree.specs.Path.{same_path};

use crate::joining::concatenate;
use crate::reading::{UncleanFault, unclean};
use crate::{Identifier, Layout, Share, UnmetIdentifiers};
use pt_tree::{MemoryFault, NamePath};
use std::alloc::Global;

/// An object with its identifier and its place.
#[derive(Drop)]
pub struct PlacedObject {
    /// Its identifier.
    pub id: Identifier,
    /// Its place, from the storage root on.
    pub place: NamePath,
}

/// Why an object has no identifier that can be carried.
#[derive(Clone, Copy, Debug, PartialEq, Eq)]
pub enum Refusal {
    /// The names are no cleaned identifier.
    Malformed,
    /// They read bytes that aren't UTF-8.
    NotUtf8,
    /// The identifier's place is kept for the storage root's own use.
    Reserved,
}

/// What the names of a site say of its object.
#[derive(Drop)]
pub enum Identification {
    /// It has no identifier that can be carried.
    Refused(Refusal),
    /// It is of another share.
    OtherShare,
    /// It is of this share, and can be carried.
    Candidate(PlacedObject),
}

/// What the names of a site's path say of its object, in a store of this prefix. They are read with
/// nothing between, and the identifier is what they read, behind the prefix (Pairtree 0.1,
/// "Identifier string cleaning"); its place is that of the layout.
///
/// Asked in this order: whether the names read something (`Malformed`), whether that is UTF-8
/// (`NotUtf8`), whether the place is the storage root's own (`Reserved`), and whether the object is
/// of this share. The path isn't empty. `Memory` where a growth was refused. The identifier that
/// the names read counts as met then, whatever becomes of the object.
pub fn identify(
    site: &NamePath,
    prefix: &str,
    layout: Layout,
    share: &Share,
    unmet: &mut UnmetIdentifiers,
) -> Result<Identification, MemoryFault>
    requires { 0 < length site.now }
    ensures says { IfOk result (λ answer. answer
        ≡ identification_of layout share.now prefix.now site.now) }
    ensures notes { OnOk result (unmet.new
        ≡ without_any (identifier_read prefix.now site.now) unmet.old) }
{
    let alloc = site.allocator();
    let text = text_of_names(alloc, site)?;
    match unclean(alloc, &text) {
        Ok(read) => {
            let id = with_prefix(alloc, prefix, &read)?;
            unmet.note_met(id.as_str().as_bytes());
            with_place(site, id, layout, share)
        }
        Err(UncleanFault::Malformed) => Ok(Identification::Refused(Refusal::Malformed)),
        Err(UncleanFault::NotUtf8) => Ok(Identification::Refused(Refusal::NotUtf8)),
        Err(UncleanFault::Memory) => Err(MemoryFault::Memory),
    }
}

// The names of a path, joined by nothing. There is a name, and no name is empty.
fn text_of_names(alloc: Global, path: &NamePath) -> Result<Vec<u8>, MemoryFault>
    requires { 0 < length path.now }
    ensures text { IfOk result (λ text. text.items ≡ concat path.now) }
    ensures some { 0 < length (concat path.now) }
{
    let Some(first) = path.get(0) else {
        unreachable!()
    };
    let _bytes = first.bytes();
    concatenate(alloc, path)
}

// The identifier that has this text behind the prefix.
fn with_prefix(alloc: Global, prefix: &str, text: &str) -> Result<Identifier, MemoryFault>
    ensures { IfOk result (λ id. id ≡ prefix.now ++ text.now) }
{
    let mut id = String::from_str(alloc, prefix)?;
    id.push_str(text)?;
    Ok(Identifier::of(id))
}

// The object of a site, of this identifier, with its place, unless that is the storage root's own,
// or the object of another share.
fn with_place(
    site: &NamePath,
    id: Identifier,
    layout: Layout,
    share: &Share,
) -> Result<Identification, MemoryFault>
    requires { 0 < length id }
    ensures { IfOk result (λ answer. answer
        ≡ identification_by layout share.now site.now (unless_reserved layout id)) }
{
    let text = id.as_str().as_bytes();
    let place = layout.place(site.allocator(), text)?;
    if is_reserved(layout, &place) {
        return Ok(Identification::Refused(Refusal::Reserved));
    }
    if !share.takes(site, text) {
        return Ok(Identification::OtherShare);
    }
    Ok(Identification::Candidate(PlacedObject { id, place }))
}

// Whether no tuples are used, and a place is that of the storage root's own extensions.
fn is_reserved(layout: Layout, place: &NamePath) -> bool
    ensures { result ≡ is_own_place layout place.now }
{
    layout.count() == 0 && is_extensions(place)
}

// Whether a path is that of the storage root's own extensions (OCFL 1.1, "Root Structure").
fn is_extensions(path: &NamePath) -> bool
    ensures { result ≡ same_path path.now (codes "extensions" ∷ []) }
{
    match path.get(0) {
        Some(name) => path.len() == 1 && name.bytes() == b"extensions".as_slice(),
        None => false,
    }
}
