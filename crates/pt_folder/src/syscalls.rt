//! How a folder calls the system: what it asks, and what is kept of an answer that is a failure.
ghost use Rattle.std.specs.Prelude.{◌≡◌, [], Err, IfOk, IfSome, IsSomeAnd, OnErr, OnOk};
ghost use Rattle.std.specs.Prelude.{string_bytes};
ghost use Rattle.pt_folder.specs.Syscalls.{new_syscalls};
ghost use Rattle.pt_folder.specs.Calls.{AsksOnce, IsAnswer, IsThere, LeadsToKind, MakesOnce};
ghost use Rattle.pt_folder.specs.Calls.{change_of};
ghost use Rattle.pt_folder.specs.Failure.{FailsLook, FailsToPeek, IsOfCall, KeepsCall, KeepsMaking};
ghost use Rattle.pt_folder.specs.Failure.{OnDevice};
ghost use Rattle.pt_folder.specs.Folder.{entry_in, entry_text};
ghost use Rattle.pt_folder.specs.Listing.{LeadsToOwnKind};
ghost use Rattle.pt_folder.specs.Moving.{FailsToSync, IsSynced};
ghost use Rattle.pt_folder.specs.Opening.{IsOfFile, LeadsToFile};
ghost use Rattle.pt_folder.specs.Runs.{PeeksAt};

use crate::bytes::read_block;
use crate::failure::{FailureReason, Last};
use crate::folder::{Folder, is_absent};
use crate::system::{Handle, System};
use pt_tree::{BLOCK, Block, Kind, NamePath, TreeFault};
use std::alloc::Global;

/// The system that a folder calls, and the last of these calls that failed.
#[derive(Drop)]
pub struct Syscalls<S> {
    pub system: S,
    pub last: Last,
}

impl<S: System> Syscalls<S> {
    /// A system of which nothing was asked yet.
    pub fn new(system: S, alloc: Global) -> Syscalls<S>
        ensures { result ≡ new_syscalls system alloc }
    {
        Syscalls {
            system,
            last: Last {
                alloc,
                failure: None,
            },
        }
    }

    /// The kind of an entry, links not followed; None where nothing is there, or a parent isn't a
    /// directory. `at` becomes the entry's path, unless that is a fault.
    pub fn kind_at(
        &mut self,
        folder: &Folder<'_>,
        path: &NamePath,
        at: &mut String,
    ) -> Result<Option<Kind>, TreeFault>
        ensures at { OnOk result (string_bytes at.new ≡ entry_text folder.now.path.now path.now) }
        ensures still { OnErr result (at.new ≡ at.old) }
        ensures asked { AsksOnce S.looks LeadsToKind
            (entry_in folder.now.path.now path.now)
            (change_of self.old.system self.new.system) result }
        ensures kept { OnDevice result (KeepsCall folder.now.path.now path.now
            (λ e. S.looks self.old.system (entry_text folder.now.path.now path.now) (Err e)
            self.new.system) self.new.last.failure) }
    {
        let text = folder.text(path, &mut self.last)?;
        match self.system.lstat(text.as_str()) {
            Ok(kind) => {
                *at = text;
                Ok(Some(kind))
            }
            Err(error) if is_absent(&error) => {
                *at = text;
                Ok(None)
            }
            Err(error) => Err(self.last.record_error(text, error)),
        }
    }

    /// Looks at an entry that must be there: that it isn't is a failure.
    pub fn is_there(&mut self, folder: &Folder<'_>, path: &NamePath) -> Result<(), TreeFault>
        ensures asked { AsksOnce S.looks IsThere
            (entry_in folder.now.path.now path.now)
            (change_of self.old.system self.new.system) result }
        ensures kept { OnDevice result (KeepsCall folder.now.path.now path.now
            (λ e. S.looks self.old.system (entry_text folder.now.path.now path.now) (Err e)
            self.new.system) self.new.last.failure) }
    {
        let text = folder.text(path, &mut self.last)?;
        match self.system.lstat(text.as_str()) {
            Ok(_) => Ok(()),
            Err(error) => Err(self.last.record_error(text, error)),
        }
    }

    /// Makes a directory at the path of an entry, unless the path is longer than any that may be
    /// made.
    pub fn make_dir(
        &mut self,
        folder: &Folder<'_>,
        path: &NamePath,
        longest: usize,
    ) -> Result<(), TreeFault>
        ensures asked { MakesOnce longest S.makes_dir IsAnswer
            (entry_in folder.now.path.now path.now)
            (change_of self.old.system self.new.system) result }
        ensures kept { OnDevice result (KeepsMaking longest folder.now.path.now path.now
            (λ e. S.makes_dir self.old.system (entry_text folder.now.path.now path.now) (Err e)
            self.new.system) self.new.last.failure) }
    {
        let text = folder.text_to_make(path, longest, &mut self.last)?;
        match self.system.make_dir(text.as_str()) {
            Ok(()) => Ok(()),
            Err(error) => Err(self.last.record_error(text, error)),
        }
    }

    /// The block becomes the first bytes of a file. On a fault the block is empty.
    pub fn peek(
        &mut self,
        folder: &Folder<'_>,
        path: &NamePath,
        block: &mut Block,
    ) -> Result<(), TreeFault>
        ensures empty { OnErr result (block.new.items ≡ []) }
        ensures asked { AsksOnce S.opens
            (PeeksAt S.File.Input.left S.File.Input.reads block.new.items)
            (entry_in folder.now.path.now path.now)
            (change_of self.old.system self.new.system) result }
        ensures kept { OnDevice result (KeepsCall folder.now.path.now path.now
            (FailsToPeek S.opens S.File.Input.reads (entry_text folder.now.path.now path.now)
            self.old.system self.new.system) self.new.last.failure) }
    {
        block.clear();
        let text = folder.text(path, &mut self.last)?;
        match self.system.open_to_read(text.as_str()) {
            Ok(mut file) => match read_block(&mut file, block, &mut [0; BLOCK]) {
                Ok(()) => Ok(()),
                Err(error) => Err(self.last.record_error(text, error)),
            },
            Err(error) => Err(self.last.record_error(text, error)),
        }
    }

    /// The kind of what is at one of the system's paths itself, links not followed.
    pub fn own_kind(&mut self, text: &str) -> Result<Kind, TreeFault>
        ensures asked { (reply : _) × S.looks self.old.system text.now reply self.new.system
            × LeadsToOwnKind reply result }
        ensures kept { OnDevice result
            (IfSome self.new.last.failure (IsOfCall text.now (FailsLook S.looks text.now))) }
    {
        match self.system.lstat(text) {
            Ok(kind) => Ok(kind),
            Err(error) => Err(self.last.record_error_at_copy(text, error)),
        }
    }

    /// Whether a file is at one of the system's paths, links not followed: that none is, is a
    /// failure. The path is given back.
    pub fn look_at_file(&mut self, text: String) -> Result<String, TreeFault>
        ensures same { IfOk result (λ path. path ≡ text) }
        ensures asked { (reply : _) × S.looks self.old.system (string_bytes text) reply
            self.new.system × LeadsToFile reply result }
        ensures kept { OnDevice result (IsSomeAnd self.new.last.failure
            (IsOfFile S.looks (string_bytes text) self.old.system self.new.system)) }
    {
        match self.system.lstat(text.as_str()) {
            Ok(Kind::File) => Ok(text),
            Ok(_) => {
                self.last.keep(text, FailureReason::NotFile);
                Err(TreeFault::Device)
            }
            Err(error) => Err(self.last.record_error(text, error)),
        }
    }

    /// Has the directory at one of the system's paths put onto its disk, so that the names in it
    /// stay.
    pub fn sync_dir(&mut self, text: String) -> Result<(), TreeFault>
        ensures asked { IsSynced S.opens S.File.Handle.syncs (string_bytes text)
            self.old.system self.new.system result }
        ensures kept { OnDevice result (IsSomeAnd self.new.last.failure
            (IsOfCall (string_bytes text) (FailsToSync S.opens S.File.Handle.syncs
            (string_bytes text) self.old.system self.new.system))) }
    {
        match self.system.open_to_read(text.as_str()) {
            Ok(mut dir) => match dir.sync() {
                Ok(()) => Ok(()),
                Err(error) => Err(self.last.record_unsynced(text, error)),
            },
            Err(error) => Err(self.last.record_unsynced(text, error)),
        }
    }
}
