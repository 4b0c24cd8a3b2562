// How something is moved in a folder: what is made ready before anything is asked, the move, and
// what comes after it.
ghost use Rattle.std.specs.Prelude.{◌≡◌, None, IfErr, IfOk, IsSomeAnd, length, string_bytes};
ghost use Rattle.pt_folder.specs.Calls.{IsDueTo, change_of};
ghost use Rattle.pt_folder.specs.Failure.{IsUnasked, OnDevice};
ghost use Rattle.pt_folder.specs.Moving.{IsGone, IsOfGoing, IsOfMove, IsReady, MovesOnce};
ghost use Rattle.pt_folder.specs.Moving.{holder_text, move_in};
ghost use Rattle.pt_folder.specs.UnsyncedChange.{move_to_sync};

use crate::failure::Last;
use crate::folder::Folder;
use crate::syscalls::Syscalls;
use crate::system::System;
use crate::unsynced_change::UnsyncedChange;
use pt_tree::{MemoryFault, NamePath, TreeFault};
use std::alloc::{AllocError, Global};

/// A move within a folder, and whether the directory that then holds what was moved is put onto the
/// disk.
#[derive(Drop)]
pub struct Move<'a> {
    pub from: &'a NamePath,
    pub to: &'a NamePath,
    pub synced: bool,
}

/// A move that is ready: the system's paths of its ends, and of the directory that holds the
/// second, and what it is while that directory isn't put onto the disk yet.
#[derive(Drop)]
pub struct ReadyMove {
    pub from: String,
    pub to: String,
    pub holder: String,
    pub left: Option<UnsyncedChange>,
}

impl<'a> Move<'a> {
    // Makes it ready; nothing is asked.
    fn ready(&self, folder: &Folder<'_>, last: &mut Last) -> Result<ReadyMove, TreeFault>
        ensures ready { IfOk result
            (IsReady self.now.synced folder.now.path.now self.now.from.now self.now.to.now) }
        ensures refused { IfErr result (λ fault. IsDueTo fault (length folder.now.path.now ≡ 0)) }
        ensures kept { OnDevice result
            (IsSomeAnd last.new.failure (IsUnasked folder.now.path.now)) }
    {
        let from = folder.text(self.from, last)?;
        let to = folder.text(self.to, last)?;
        let holder = holder(last.alloc, to.as_str())?;
        let left = self.to_sync()?;
        Ok(ReadyMove {
            from,
            to,
            holder,
            left,
        })
    }

    // What the move is while its directory isn't put onto the disk yet; None where that isn't asked
    // for.
    fn to_sync(&self) -> Result<Option<UnsyncedChange>, MemoryFault>
        ensures { IfOk result (λ unsynced. unsynced
            ≡ move_to_sync self.now.synced self.now.from.now self.now.to.now) }
    {
        if !self.synced {
            return Ok(None);
        }
        Ok(Some(UnsyncedChange::Moved(self.from.copy()?, self.to.copy()?)))
    }
}

impl ReadyMove {
    // Moves what stands at the first path to the second. The move is unsynced where its directory
    // couldn't be put onto the disk.
    fn go<S: System>(
        self,
        syscalls: &mut Syscalls<S>,
        unsynced: &mut Option<UnsyncedChange>,
    ) -> Result<(), TreeFault>
        ensures gone { IsGone S.System S.File.Handle.syncs self
            (change_of syscalls.old.system syscalls.new.system)
            (change_of unsynced.old unsynced.new) result }
        ensures kept { OnDevice result (IsSomeAnd syscalls.new.last.failure
            (IsOfGoing S.System S.File.Handle.syncs self
            (change_of syscalls.old.system syscalls.new.system))) }
    {
        if let Err(error) = syscalls.system.rename(self.from.as_str(), self.to.as_str()) {
            return Err(syscalls.last.record_error(self.to, error));
        }
        *unsynced = self.left;
        if unsynced.is_none() {
            return Ok(());
        }
        syscalls.sync_dir(self.holder)?;
        *unsynced = None;
        Ok(())
    }
}

/// Moves what stands at one path to another. Nothing is asked where a growth was refused or the
/// folder's path is empty.
pub(crate) fn move_entry<S: System>(
    syscalls: &mut Syscalls<S>,
    folder: &Folder<'_>,
    asked: &Move<'_>,
    unsynced: &mut Option<UnsyncedChange>,
) -> Result<(), TreeFault>
    requires free { unsynced.old ≡ None }
    ensures asked { MovesOnce S.System S.File.Handle.syncs
        (move_in folder.now.path.now asked.now)
        (change_of syscalls.old.system syscalls.new.system) unsynced.new result }
    ensures kept { OnDevice result (IsSomeAnd syscalls.new.last.failure
        (IsOfMove S.System S.File.Handle.syncs (move_in folder.now.path.now asked.now)
        (change_of syscalls.old.system syscalls.new.system))) }
{
    let ready = asked.ready(folder, &mut syscalls.last)?;
    ready.go(syscalls, unsynced)
}

// The path of the directory that holds an entry, by the entry's own path.
fn holder(alloc: Global, path: &str) -> Result<String, AllocError>
    ensures { IfOk result (λ text. string_bytes text ≡ holder_text path.now) }
{
    let mut text = String::from_str(alloc, path)?;
    text.push_str("/..")?;
    Ok(text)
}
