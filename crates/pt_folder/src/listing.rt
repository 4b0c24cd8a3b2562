//! Listing a directory of a folder.
ghost use Rattle.std.specs.Prelude.{◌≡◌, ◌≤◌, ◌++◌, ◌∷◌, [], true, false, if◌then◌else◌, map};
ghost use Rattle.std.specs.Prelude.{length, string_bytes};
ghost use Rattle.std.specs.Prelude.{IfErr, IfOk, IfSome, IsTrue, OnErr, OnOk};
ghost use Rattle.pt_tree.specs.Listing.{names_rise};
ghost use Rattle.pt_tree.specs.Name.{is_name};
ghost use Rattle.pt_folder.specs.Seeing.{SeesAt};
ghost use Rattle.std.specs.List.{FoldsTo};
ghost use Rattle.pt_folder.specs.Failure.{IsAt, IsOfEntry, IsOfName, IsOfNames, KeepsListing};
ghost use Rattle.pt_folder.specs.Failure.{OnDevice};
ghost use Rattle.pt_folder.specs.FailingLaws.{FailsStill};
ghost use Rattle.pt_folder.specs.Folder.{entry_in};
ghost use Rattle.pt_tree.specs.Listing.{can_follow};
ghost use Rattle.pt_folder.specs.Calls.{IsDueTo, change_of};
ghost use Rattle.pt_folder.specs.Listing.{AreAll, FailsToLook, HasDir, IsListingOf, LooksAt};
ghost use Rattle.pt_folder.specs.Listing.{LooksIn, most_entries};
ghost use Rattle.pt_folder.specs.Names.{IsRefusedName, is_entry};
ghost use Rattle.pt_folder.specs.WholeListing.{FailsToList, IsListedBy};

use crate::bytes::ReadBuffer;
use crate::failure::{FailureReason, Last};
use crate::folder::{Folder, name_text};
use crate::syscalls::Syscalls;
use crate::system::System;
use crate::taking::{Takes, take_dir};
use pt_tree::{Kind, Listing, ListingFault, Name, NameFault, NamePath, TreeFault};

// The greatest number of a directory's entries.
pub(crate) const MOST: usize = 16_777_216;

pub(crate) const LONGEST_NAME: usize = 255;

/// The names and kinds in a directory of a folder, in the order of the names' bytes; links aren't
/// followed.
///
/// `Device` where the folder's path is empty, opening, a read or a look at an entry failed, a name
/// comes twice, is none that an entry may have or has no NUL behind it, there are more than
/// 16,777,216 entries, or 2^64 - 1 reads found no end. `Memory` where a growth was refused.
pub fn list<S: System>(
    syscalls: &mut Syscalls<S>,
    folder: &Folder<'_>,
    path: &NamePath,
    piece: &mut ReadBuffer,
) -> Result<Listing, TreeFault>
    requires { HasDir (S.forest syscalls.old.system folder.now.path.now) path.now }
    ensures same { S.forest syscalls.new.system folder.now.path.now
        ≡ S.forest syscalls.old.system folder.now.path.now }
    ensures still { FailsStill S.failing syscalls.old.system syscalls.new.system }
    ensures told { IfOk result (IsListingOf
        (S.forest syscalls.old.system folder.now.path.now) path.now) }
    ensures most { IfOk result (λ listing. length listing ≤ most_entries) }
    ensures listed { IfOk result (IsListedBy S.System S.Dir.Input
        (entry_in folder.now.path.now path.now)
        (change_of syscalls.old.system syscalls.new.system)) }
    ensures fault { IfErr result (λ fault. IsDueTo fault
        (FailsToList S.System S.Dir.Input (entry_in folder.now.path.now path.now)
        (change_of syscalls.old.system syscalls.new.system))) }
    ensures kept { OnDevice result
        (KeepsListing S.looks folder.now.path.now path.now syscalls.new.last.failure) }
{
    let mut text = folder.text_with_room(path, LONGEST_NAME + 1, &mut syscalls.last)?;
    let mut names = Vec::<Name>::new(syscalls.last.alloc);
    take_dir(syscalls, text.as_str(), piece, &mut names)?;
    names.sort_unstable();
    if !path.is_empty() {
        text.push('/')?;
    }
    with_kinds(syscalls, text, names)
}

// What is no name fails the listing, as `Device`.
impl Takes for Vec<Name> {
    ghost has = { AreAll };

    ghost refuses = { IsRefusedName most_entries };

    fn take(&mut self, bytes: &[u8], text: &str, last: &mut Last) -> Result<(), TreeFault>
        ensures most { length self.old.items ≤ most_entries
            → length self.new.items ≤ most_entries }
        ensures added { OnOk result (self.new.items
            ≡ (if is_entry bytes.now then self.old.items ++ bytes.now ∷ [] else self.old.items)) }
        ensures fault { IfErr result (λ fault. IsDueTo fault
            (IsRefusedName most_entries self.old.items bytes.now)) }
        ensures cause { OnDevice result (IfSome last.new.failure
            (λ f. IsOfName most_entries self.old.items bytes.now f.cause)) }
        ensures kept { OnDevice result (IfSome last.new.failure (IsOfNames text.now)) }
    {
        if bytes == b".".as_slice() || bytes == b"..".as_slice() {
            return Ok(());
        }
        if self.len() >= MOST {
            last.keep_copy(text, FailureReason::Entries);
            return Err(TreeFault::Device);
        }
        match Name::of(last.alloc, bytes) {
            Ok(name) => self.push(name).map_err(|_| TreeFault::Memory),
            Err(NameFault::Memory) => Err(TreeFault::Memory),
            Err(_) => {
                last.keep_name(text, bytes);
                Err(TreeFault::Device)
            }
        }
    }
}

// The entries of these names, in their order, with their kinds. The text is the directory's path,
// with `/` behind.
pub(crate) fn with_kinds<S: System>(
    syscalls: &mut Syscalls<S>,
    text: String,
    names: Vec<Name>,
) -> Result<Listing, TreeFault>
    ensures names { IfOk result (λ listing. map (λ item. item.0) listing ≡ names.items) }
    ensures rise { IfOk result (λ listing. IsTrue (names_rise listing)) }
    ensures seen { IfOk result
        (SeesAt S.forest (string_bytes text) syscalls.old.system syscalls.new.system) }
    ensures same { OnErr result
        (SeesAt S.forest (string_bytes text) syscalls.old.system syscalls.new.system []) }
    ensures still { FailsStill S.failing syscalls.old.system syscalls.new.system }
    ensures looked { IfOk result (λ listing. FoldsTo (LooksAt S.looks (string_bytes text))
        syscalls.old.system listing syscalls.new.system) }
    ensures fault { IfErr result (λ fault. IsDueTo fault (FailsToLook S.looks (string_bytes text)
        names.items syscalls.old.system syscalls.new.system)) }
    ensures kept { OnDevice result
        (IfSome syscalls.new.last.failure (IsOfEntry S.looks (string_bytes text))) }
{
    let mut text = text;
    let mut listing = Listing::with_room(syscalls.last.alloc, names.len())?;
    for name in names {
        let kind = kind_in(syscalls, &mut text, &name)?;
        add_entry(&mut listing, name, kind, text.as_str(), &mut syscalls.last)?;
    }
    let _count = listing.len();
    Ok(listing)
}

// The kind of an entry in the directory whose path, with `/` behind, is the text; links aren't
// followed.
fn kind_in<S: System>(
    syscalls: &mut Syscalls<S>,
    text: &mut String,
    name: &Name,
) -> Result<Kind, TreeFault>
    ensures text { OnOk result (string_bytes text.new ≡ string_bytes text.old) }
    ensures named { is_name name.now ≡ true }
    ensures asked { LooksIn S.looks (string_bytes text.old) name.now
        syscalls.old.system syscalls.new.system result }
    ensures kept { OnDevice result
        (IfSome syscalls.new.last.failure (IsOfEntry S.looks (string_bytes text.old))) }
{
    let end = text.len();
    text.push_str(name_text(name))?;
    let kind = syscalls.own_kind(text.as_str())?;
    text.truncate(end);
    Ok(kind)
}

// Adds an entry to the listing of the directory whose path, with `/` behind, is the text.
fn add_entry(
    listing: &mut Listing,
    name: Name,
    kind: Kind,
    text: &str,
    last: &mut Last,
) -> Result<(), TreeFault>
    ensures added { OnOk result (listing.new ≡ listing.old ++ (name, kind) ∷ []) }
    ensures fault { IfErr result (λ fault. IsDueTo fault (can_follow listing.old name ≡ false)) }
    ensures kept { OnDevice result (IfSome last.new.failure (IsAt text.now FailureReason.Twice)) }
{
    match listing.add(name, kind) {
        Ok(()) => Ok(()),
        Err(ListingFault::Memory) => Err(TreeFault::Memory),
        Err(ListingFault::NotRising) => {
            last.keep_copy(text, FailureReason::Twice);
            Err(TreeFault::Device)
        }
    }
}
