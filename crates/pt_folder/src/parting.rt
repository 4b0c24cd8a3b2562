//! Listing a directory past what there has none of the names that an entry may have.
ghost use Rattle.std.specs.Prelude.{◌≡◌, ◌≤◌, ◌++◌, ◌∷◌, ◌&&◌, [], if◌then◌else◌, length, IfErr};
ghost use Rattle.std.specs.Prelude.{IfOk, IfSome, OnOk};
ghost use Rattle.pt_tree.specs.Name.{is_name};
ghost use Rattle.pt_folder.specs.Calls.{IsDueTo, change_of};
ghost use Rattle.pt_folder.specs.Failure.{IsOfNames, KeepsListing, OnDevice};
ghost use Rattle.pt_folder.specs.FailingLaws.{FailsStill};
ghost use Rattle.pt_folder.specs.Folder.{entry_in};
ghost use Rattle.pt_folder.specs.Listing.{HasDir, IsListingOf, most_entries};
ghost use Rattle.pt_folder.specs.Names.{is_entry};
ghost use Rattle.pt_folder.specs.Parting.{FailsToListPast, HasParts, IsBeyond, IsFew, IsListedPast};
ghost use Rattle.pt_folder.specs.Parting.{IsOneTooMany, bytes_in, is_no_name};

use crate::bytes::ReadBuffer;
use crate::failure::{FailureReason, Last};
use crate::folder::Folder;
use crate::listing::{LONGEST_NAME, MOST, with_kinds};
use crate::syscalls::Syscalls;
use crate::system::System;
use crate::taking::{Takes, take_dir};
use pt_tree::{Listing, Name, NameFault, NamePath, TreeFault};
use std::alloc::Global;

/// What a directory gives: names that an entry may have, and bytes that are none.
#[derive(Drop)]
pub struct Partition {
    pub names: Vec<Name>,
    pub refused: Vec<Vec<u8>>,
}

/// The names and kinds in a directory of a folder as `listing::list` gives them, but for bytes that
/// are no name: these become `refused`, in their order, also where looking at an entry fails then.
/// Where the directory isn't read to its end, `refused` stays as it is.
///
/// `Device` and `Memory` as there; `Device` too where more is given once there are 16,777,216
/// names, or as many that are none.
pub fn list_named<S: System>(
    syscalls: &mut Syscalls<S>,
    folder: &Folder<'_>,
    path: &NamePath,
    piece: &mut ReadBuffer,
    refused: &mut Vec<Vec<u8>>,
) -> Result<Listing, TreeFault>
    requires { HasDir (S.forest syscalls.old.system folder.now.path.now) path.now }
    ensures same { S.forest syscalls.new.system folder.now.path.now
        ≡ S.forest syscalls.old.system folder.now.path.now }
    ensures still { FailsStill S.failing syscalls.old.system syscalls.new.system }
    ensures told { IfOk result (IsListingOf
        (S.forest syscalls.old.system folder.now.path.now) path.now) }
    ensures most { IfOk result (λ listing. length listing ≤ most_entries) }
    ensures listed { IfOk result (IsListedPast S.System S.Dir.Input
        (entry_in folder.now.path.now path.now)
        (change_of syscalls.old.system syscalls.new.system) refused.new.items) }
    ensures fault { IfErr result (FailsToListPast S.System S.Dir.Input
        (entry_in folder.now.path.now path.now) (change_of syscalls.old.system syscalls.new.system)
        (change_of refused.old.items refused.new.items)) }
    ensures kept { OnDevice result
        (KeepsListing S.looks folder.now.path.now path.now syscalls.new.last.failure) }
{
    let mut text = folder.text_with_room(path, LONGEST_NAME + 1, &mut syscalls.last)?;
    let mut parted = Partition::new(syscalls.last.alloc);
    take_dir(syscalls, text.as_str(), piece, &mut parted)?;
    let Partition {
        mut names,
        refused: mut others,
    } = parted;
    others.sort_unstable();
    names.sort_unstable();
    *refused = others;
    if !path.is_empty() {
        text.push('/')?;
    }
    with_kinds(syscalls, text, names)
}

impl Partition {
    /// Nothing yet.
    fn new(alloc: Global) -> Partition
        ensures { HasParts result [] }
    {
        Partition {
            names: Vec::new(alloc),
            refused: Vec::new(alloc),
        }
    }
}

// What is no name goes to `refused`.
impl Takes for Partition {
    ghost has = { HasParts };

    ghost refuses = { IsOneTooMany };

    fn take(&mut self, bytes: &[u8], text: &str, last: &mut Last) -> Result<(), TreeFault>
        ensures most { IsFew self.old → IsFew self.new }
        ensures named { OnOk result (self.new.names.items
            ≡ (if is_entry bytes.now && is_name bytes.now
            then self.old.names.items ++ bytes.now ∷ [] else self.old.names.items)) }
        ensures refused { OnOk result (bytes_in self.new.refused.items
            ≡ (if is_entry bytes.now && is_no_name bytes.now
            then bytes_in self.old.refused.items ++ bytes.now ∷ []
            else bytes_in self.old.refused.items)) }
        ensures fault { IfErr result (λ fault. IsDueTo fault (IsBeyond self.old bytes.now)) }
        ensures kept { OnDevice result (IfSome last.new.failure (IsOfNames text.now)) }
    {
        if bytes == b".".as_slice() || bytes == b"..".as_slice() {
            return Ok(());
        }
        if self.names.len() >= MOST || self.refused.len() >= MOST {
            last.keep_copy(text, FailureReason::Entries);
            return Err(TreeFault::Device);
        }
        match Name::of(last.alloc, bytes) {
            Ok(name) => self.names.push(name).map_err(|_| TreeFault::Memory),
            Err(NameFault::Memory) => Err(TreeFault::Memory),
            Err(_) => {
                let copy = Vec::from_slice(last.alloc, bytes)?;
                self.refused.push(copy).map_err(|_| TreeFault::Memory)
            }
        }
    }
}
