//! What is told of a folder and of an entry, by what a check sees of them.
//!
//! At each it is exactly what `folder_trouble`, `reserved_trouble`, `width_trouble`,
//! `count_trouble`, `entry_trouble` and `room_trouble` say of it, each by a line of its own
//! (`Tells`): the cause for which a run of the form that is wanted passes a site over, names that
//! aren't those of the identifier's own pairpath, a folder that looks like a longer piece, the
//! first file over the limit of an object, names that desktops leave, links and special files, and
//! paths in an object that are too long, for a run or for the room that a destination has.
//! `reserved` is that of the layout that is asked for, and of the prefix as it was read, empty
//! where none is known. Of a file that was read it is what `size_trouble` says of its length.
#![tactic(auto, using(crate::proofs::NamesRead::names_read))]

ghost use Rattle.std.specs.Prelude.{◌≡◌, ◌<◌, drop, length, IfOk};
ghost use Rattle.std.specs.List.{concat};
ghost use Rattle.pt_name.specs.Identifying.{identification_of};
ghost use Rattle.pt_name.specs.Share.{whole};
ghost use Rattle.pt_check.specs.Visits.{count_trouble as count_trouble_of};
ghost use Rattle.pt_check.specs.Visits.{entry_trouble as entry_trouble_of};
ghost use Rattle.pt_check.specs.Visits.{finding_of as finding_of_items};
ghost use Rattle.pt_check.specs.Visits.{folder_trouble as folder_trouble_of};
ghost use Rattle.pt_check.specs.Visits.{is_long as is_long_path};
ghost use Rattle.pt_check.specs.Visits.{is_of_desktop as is_of_desktop_name};
ghost use Rattle.pt_check.specs.Visits.{is_renamed as is_renamed_of};
ghost use Rattle.pt_check.specs.Visits.{name_trouble as name_trouble_of};
ghost use Rattle.pt_check.specs.Visits.{reserved_at as reserved_at_place};
ghost use Rattle.pt_check.specs.Visits.{reserved_by as reserved_by_answer};
ghost use Rattle.pt_check.specs.Visits.{reserved_trouble as reserved_trouble_of};
ghost use Rattle.pt_check.specs.Visits.{room_trouble as room_trouble_of};
ghost use Rattle.pt_check.specs.Visits.{size_trouble as size_trouble_of};
ghost use Rattle.pt_check.specs.Visits.{spelling_trouble as spelling_trouble_of, trouble_of_names};
ghost use Rattle.pt_check.specs.Width.{has_shorties_alone as has_shorties_alone_of};
ghost use Rattle.pt_check.specs.Width.{is_among_shorties as is_among_shorties_path};
ghost use Rattle.pt_check.specs.Width.{width_trouble as width_trouble_of};
ghost use Rattle.pt_walk.specs.Site.{found};
ghost use Rattle.pt_walk.specs.declared.site.At.TheVariants as at;
ghost use Rattle.pt_walk.specs.declared.site.Form.TheVariants as form;

use crate::{Trouble, Within};
use pt_name::{
    Identification, Layout, Refusal, Share, UncleanFault, UnmetIdentifiers, clean, concatenate,
    identify, unclean,
};
use pt_tree::{Kind, Listing, MemoryFault, Name, NamePath};
use pt_walk::{At, Cause, Finding, Form, Limits, is_shorty, judge};
use std::alloc::Global;

/// What a site is to a run of this form, by what it lists; another folder only leads on.
pub(crate) fn finding_of(form: Form, within: Within, listing: &Listing) -> Finding
    ensures { result ≡ finding_of_items form within listing.now }
{
    match within {
        Within::Site(at) => judge(listing, at, form),
        _ => Finding::Interior,
    }
}

/// Whether the own folder of an object, in a site at a path that lists these entries and is found
/// to be this, has another name than those of the site join to.
pub(crate) fn is_renamed(
    alloc: Global,
    path: &NamePath,
    listing: &Listing,
    finding: Finding,
) -> Result<bool, MemoryFault>
    ensures { IfOk result (λ renamed. renamed ≡ is_renamed_of path.now listing.now finding) }
{
    let Finding::Candidate(i) = finding else {
        return Ok(false);
    };
    let Some((name, _)) = listing.get(i) else {
        return Ok(false);
    };
    let text = text_below(alloc, path)?;
    Ok(name.bytes() != text.as_slice())
}

/// What is told of a folder at a path from the store's folder on, which is found to be this.
pub(crate) fn folder_trouble(
    alloc: Global,
    within: Within,
    finding: Finding,
    path: &NamePath,
) -> Result<Option<Trouble>, MemoryFault>
    ensures { IfOk result (λ trouble. trouble ≡ folder_trouble_of within finding path.now) }
{
    match (within, finding) {
        (Within::Past, _) => Ok(Some(Trouble::Skipped(Cause::Past))),
        (_, Finding::Skip(cause)) => Ok(Some(Trouble::Skipped(cause))),
        (_, Finding::Candidate(_) | Finding::Gathered) => identifier_trouble(alloc, path),
        _ => Ok(None),
    }
}

// What is told of the names of a site, which are read with nothing between (Pairtree 0.1,
// "Identifier string cleaning").
fn identifier_trouble(alloc: Global, path: &NamePath) -> Result<Option<Trouble>, MemoryFault>
    ensures { IfOk result (λ trouble. trouble
        ≡ trouble_of_names (concat (drop 1 path.now))) }
{
    let text = text_below(alloc, path)?;
    text_trouble(alloc, text.as_slice())
}

// The names of a path behind the first, joined by nothing.
fn text_below(alloc: Global, path: &NamePath) -> Result<Vec<u8>, MemoryFault>
    ensures { IfOk result (λ text. text.items ≡ concat (drop 1 path.now)) }
{
    let below = NamePath::new(alloc).with_names(names_below(path))?;
    concatenate(alloc, &below)
}

// What is told of the text that the names of a site join to.
fn text_trouble(alloc: Global, text: &[u8]) -> Result<Option<Trouble>, MemoryFault>
    ensures { IfOk result (λ trouble. trouble ≡ trouble_of_names text.now) }
{
    match unclean(alloc, text) {
        Ok(id) => spelling_trouble(alloc, text, id.as_str()),
        Err(UncleanFault::Malformed) => Ok(Some(Trouble::Skipped(Cause::Name))),
        Err(UncleanFault::NotUtf8) => Ok(Some(Trouble::Skipped(Cause::Utf8))),
        Err(UncleanFault::Memory) => Err(MemoryFault::Memory),
    }
}

// What is told of an identifier, by the text that the names of its site join to (Pairtree 0.1: the
// one that cleaning gives).
fn spelling_trouble(alloc: Global, text: &[u8], id: &str) -> Result<Option<Trouble>, MemoryFault>
    ensures { IfOk result (λ trouble. trouble ≡ spelling_trouble_of text.now id.now) }
{
    let own = clean(alloc, id.as_bytes())?;
    if own.as_slice() == text {
        Ok(None)
    } else {
        Ok(Some(Trouble::Spelling))
    }
}

/// What is told of a folder that is found to be this, by its place in a destination of this layout,
/// in a store of this prefix.
pub(crate) fn reserved_trouble(
    layout: Layout,
    prefix: &str,
    finding: Finding,
    path: &NamePath,
) -> Result<Option<Trouble>, MemoryFault>
    ensures { IfOk result (λ trouble. trouble
        ≡ reserved_trouble_of layout prefix.now finding path.now) }
{
    match finding {
        Finding::Candidate(_) | Finding::Gathered if layout.count() == 0 => {
            reserved_at(layout, prefix, path)
        }
        _ => Ok(None),
    }
}

// What is told of the identifier of a site with an object, by its place: a run keeps that free for
// the root's own use.
fn reserved_at(
    layout: Layout,
    prefix: &str,
    path: &NamePath,
) -> Result<Option<Trouble>, MemoryFault>
    ensures { IfOk result (λ trouble. trouble
        ≡ reserved_at_place layout prefix.now (drop 1 path.now)) }
{
    let names = names_below(path);
    if names.is_empty() {
        return Ok(None);
    }
    let below = NamePath::new(path.allocator()).with_names(names)?;
    reserved_below(layout, prefix, &below)
}

// The same of the path of a site below `pairtree_root`.
fn reserved_below(
    layout: Layout,
    prefix: &str,
    below: &NamePath,
) -> Result<Option<Trouble>, MemoryFault>
    requires { 0 < length below.now }
    ensures { IfOk result (λ trouble. trouble
        ≡ reserved_by_answer (identification_of layout whole prefix.now below.now)) }
{
    let mut unmet = UnmetIdentifiers::none(below.allocator());
    match identify(below, prefix, layout, &Share::whole(), &mut unmet) {
        Ok(said) => Ok(reserved_by(said)),
        Err(fault) => Err(fault),
    }
}

// What is told of an object of which this is said.
fn reserved_by(said: Identification) -> Option<Trouble>
    ensures { result ≡ reserved_by_answer said }
{
    match said {
        Identification::Refused(Refusal::Reserved) => Some(Trouble::Skipped(Cause::Reserved)),
        _ => None,
    }
}

/// What is told of a folder at a path from the store's folder on, by its name and what it lists.
pub(crate) fn width_trouble(path: &NamePath, listing: &Listing) -> Option<Trouble>
    ensures { result ≡ width_trouble_of path.now listing.now }
{
    if is_among_shorties(names_below(path)) && has_shorties_alone(listing) {
        Some(Trouble::Width)
    } else {
        None
    }
}

// Whether the last of these names has over two bytes, and no other.
fn is_among_shorties(names: &[Name]) -> bool
    ensures { result ≡ is_among_shorties_path names.now }
{
    match names {
        [] => false,
        [name] => !is_shorty(name, Kind::Dir),
        [name, below @ ..] => is_shorty(name, Kind::Dir) && is_among_shorties(below),
    }
}

// Whether what lists these entries would lead on as a site, or have an object beside shorties.
fn has_shorties_alone(listing: &Listing) -> bool
    ensures { result ≡ has_shorties_alone_of (length listing.now)
        (found listing.now at.Pair form.Plain) }
{
    match judge(listing, At::Pair, Form::Plain) {
        Finding::Interior => true,
        Finding::Candidate(_) => listing.len() > 1,
        _ => false,
    }
}

/// The names of a path behind the first.
pub(crate) fn names_below(path: &NamePath) -> &[Name]
    ensures { result.now ≡ drop 1 path.now }
{
    match path.names() {
        [] => &[],
        [_, below @ ..] => below,
    }
}

/// What is told of an entry in a folder that is this, whose path from the store's folder on has so
/// many bytes.
pub(crate) fn entry_trouble(within: Within, name: &Name, kind: Kind, length: u64) -> Option<Trouble>
    ensures { result ≡ entry_trouble_of within name.now kind length }
{
    match kind {
        Kind::Other => Some(Trouble::Skipped(Cause::Other)),
        Kind::File if is_long(within, length) => Some(Trouble::Long),
        _ => name_trouble(name),
    }
}

/// What is told of an entry of this kind in a folder that is this, by how many files its object has
/// before it.
pub(crate) fn count_trouble(within: Within, kind: Kind, held: u64) -> Option<Trouble>
    ensures { result ≡ count_trouble_of within kind held }
{
    match (within, kind) {
        (Within::Object(_), Kind::File) if held == Limits::greatest().files() => {
            Some(Trouble::Many)
        }
        _ => None,
    }
}

/// What is told of an entry of this kind in a folder that is this, whose path from the store's
/// folder on has so many bytes, where a destination has room for paths of so many bytes in an
/// object.
pub(crate) fn room_trouble(
    room: Option<u64>,
    within: Within,
    kind: Kind,
    length: u64,
) -> Option<Trouble>
    ensures { result ≡ room_trouble_of room within kind length }
{
    match (room, within, kind) {
        (Some(most), Within::Object(before), Kind::File) if length > before.saturating_add(most) =>
            { Some(Trouble::Place) }
        _ => None,
    }
}

/// What is told of a file of which so many bytes were read.
pub(crate) fn size_trouble(bytes: u64) -> Option<Trouble>
    ensures { result ≡ size_trouble_of bytes }
{
    if bytes > Limits::greatest().file_bytes() {
        Some(Trouble::Large)
    } else {
        None
    }
}

// What is told of an entry by its name alone.
fn name_trouble(name: &Name) -> Option<Trouble>
    ensures { result ≡ name_trouble_of name.now }
{
    if is_of_desktop(name) {
        Some(Trouble::Desktop)
    } else {
        None
    }
}

// Whether the logical path of an entry is longer than a run carries, which has so many bytes with
// what is before it.
fn is_long(within: Within, length: u64) -> bool
    ensures { result ≡ is_long_path within length }
{
    match within {
        Within::Object(before) => {
            length > before.saturating_add(Limits::greatest().path_bytes())
        }
        _ => false,
    }
}

// Whether desktops leave entries of this name.
fn is_of_desktop(name: &Name) -> bool
    ensures { result ≡ is_of_desktop_name name.now }
{
    let bytes = name.bytes();
    bytes == b".DS_Store".as_slice()
        || bytes == b"Thumbs.db".as_slice()
        || bytes == b"desktop.ini".as_slice()
        || bytes.starts_with(b"._")
}
