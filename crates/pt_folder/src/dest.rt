//! A folder of the system as a destination.
//!
//! It meets `Dest`: what is made, moved and written is what the tree becomes, and a failed call
//! changes nothing but for the part of a piece that a failed `append` leaves. Which calls of the
//! system each call makes:
//!
//! - `kind`, `mkdir`, `create`, `rename`: one each, on the folder's path with the names behind it,
//!   and its answer (`AsksOnce`, `MakesOnce`, `MovesOnce`). Nothing is asked where the folder's
//!   path is empty, an entry's would be longer than `with_longest` allows, or memory is wanting
//!   (`CannotMake`). `create` asks for a file to be made. A file that is open at or below what was
//!   renamed is closed, and no other (`open_unless_within`).
//! - `peek`: the opening, on that path too, and then reads one after another into the room that is
//!   left, until there is none or a read gives nothing (`ReadsBlock`). It fails exactly as one of
//!   these did, and none follows that (`FailsToRead`).
//! - `append`: writes of all that is left, until nothing is (`WritesAll`). It fails exactly as one
//!   write did, and none follows that (`FailsToWrite`).
//! - `finish`, set so by `with_sync`, asks for the file to be put onto the disk before it is closed
//!   (`FinishesBy`), and `rename` for the directory that holds what was moved (`IsMovedBy`). A
//!   failed sync is always the device's failure (`IsSyncAnswer`). What is closed or moved all the
//!   same is unsynced (`UnsyncedChange`): it tells what was told before (`told_with`), and each
//!   further call is refused.
ghost use Rattle.std.proofs.Common.{◌∙◌, refl};
ghost use Rattle.std.specs.Prelude.{◌≡◌, ◌≤◌, length, [], None, Err, IfOk, IfNone, OnOk, OnErr};
ghost use Rattle.std.specs.Prelude.{false, string_bytes, true};
ghost use Rattle.std.specs.Option.{ForNone, ForSome, option_map};
ghost use Rattle.pt_tree.specs.declared.faults.TreeFault.TheVariants.{Device};
ghost use Rattle.pt_folder.specs.Syscalls.{new_syscalls};
ghost use Rattle.pt_folder.specs.Folder.{entry_text};
ghost use Rattle.pt_folder.specs.Calls.{CannotMake, IsThere, LeadsToKind};
ghost use Rattle.pt_folder.specs.Failure.{KeepsUnmade, OnDevice};
ghost use Rattle.pt_folder.specs.DestHeld.{IsBack, IsPlaced};
ghost use Rattle.pt_folder.specs.Settings.{greatest_length};
ghost use Rattle.pt_folder.specs.Writing.{IsMadeAt, open_unless_within};

use crate::failure::Failure;
use crate::folder::{Folder, count_failure};
use crate::moving::{Move, move_entry};
use crate::syscalls::Syscalls;
use crate::system::System;
use crate::unsynced_change::UnsyncedChange;
use crate::writing::{FileInWriting, add, close, close_moved, create};
use pt_tree::{Block, Dest, Kind, NamePath, TreeFault};
use std::alloc::Global;

/// A folder of the system as a destination. It tells the tree that the system keeps there, where it
/// keeps one.
///
/// Where files are put onto the disk, a call may fail though the system did its part: the file is
/// closed, or the entry moved. Then that is unsynced: what was told before is told on, and each
/// further call is refused.
#[derive(Drop)]
pub struct HostDest<'a, S: System> {
    syscalls: Syscalls<S>,
    folder: Folder<'a>,
    longest: usize,
    synced: bool,
    writing: Option<FileInWriting<S::File>>,
    unsynced: Option<UnsyncedChange>,
    at: String,
    failures: u64,
    ghost placed: { ForNone unsynced (IsPlaced (S.kept syscalls.system folder.path.now) writing) },
    ghost wanted: { ForSome unsynced (λ _. synced ≡ true) },
    ghost back: { ∥ ForSome unsynced (IsBack (S.kept syscalls.system folder.path.now)) ∥₁ },
    ghost risen: { ForSome unsynced (λ _. 1 ≤ failures) },
}

impl<'a, S: System> HostDest<'a, S> {
    ghost use Rattle.pt_folder.specs.HostDest.{IsOtherCall, failure_of, folder_path, lasting};
    ghost use Rattle.pt_folder.specs.HostDest.{system_of};

    /// A destination over the folder at a path of a system, as the runtime's. It calls nothing and
    /// takes no memory.
    pub fn new(system: S, alloc: Global, path: &'a str) -> HostDest<'a, S>
        ensures failures { result.failures ≡ 0 }
        ensures path { folder_path result ≡ path.now }
        ensures syscalls { result.syscalls ≡ new_syscalls system alloc }
        ensures writing { result.writing ≡ None }
        ensures longest { result.longest ≡ greatest_length }
        ensures synced { result.synced ≡ false }
        ensures unsynced { result.unsynced ≡ None }
        ensures at { string_bytes result.at ≡ [] }
    {
        HostDest {
            syscalls: Syscalls::new(system, alloc),
            folder: Folder { path },
            longest: usize::MAX,
            synced: false,
            writing: None,
            unsynced: None,
            at: String::new(alloc),
            failures: 0,
        }
    }

    /// The same destination, in which no directory or file is made whose path, the folder's before
    /// it, has more bytes.
    pub fn with_longest(mut self, longest: usize) -> HostDest<'a, S>
        ensures longest { result.longest ≡ longest }
        ensures writing { result.writing ≡ self.entry.writing }
        ensures unsynced { result.unsynced ≡ self.entry.unsynced }
        ensures synced { result.synced ≡ self.entry.synced }
        ensures still { lasting result ≡ lasting self.entry }
    {
        self.longest = longest;
        self
    }

    /// The same destination, with no open file and nothing unsynced, whose files are put onto the
    /// disk before they are closed, and so is, after a rename, the directory that holds what was
    /// moved.
    pub fn with_sync(mut self, synced: bool) -> HostDest<'a, S>
        ensures synced { result.synced ≡ synced }
        ensures writing { result.writing ≡ None }
        ensures unsynced { result.unsynced ≡ None }
        ensures longest { result.longest ≡ self.entry.longest }
        ensures still { lasting result ≡ lasting self.entry }
    {
        self.writing = None;
        self.unsynced = None;
        self.synced = synced;
        self
    }

    /// The last failure: after each call that answers `Device` just that one, its path and its
    /// cause (`KeepsCall`, `KeepsMaking`). Of `append` and `finish`, which copy or make the path's
    /// text then, none is kept where memory for it was refused, and no earlier one stays; a call
    /// that is refused since something is unsynced keeps none.
    pub fn last_failure(&self) -> Option<&Failure>
        ensures { option_map (λ f. f.now) result ≡ failure_of self.now }
    {
        self.syscalls.last.failure.as_ref()
    }

    /// The path that `kind` answered last; empty before the first.
    pub fn looked_path(&self) -> &str
        ensures { result.now ≡ string_bytes self.now.at }
    {
        self.at.as_str()
    }

    /// The system, as the calls left it; the open file is closed.
    pub fn into_system(self) -> S
        ensures { result ≡ system_of self.entry }
    {
        self.syscalls.system
    }

    /// Whether `mkdir` and `create` would ask the system to make this entry: `Device` where its
    /// path is too long or the folder's is empty, `Memory` where a growth was refused. The system
    /// isn't asked.
    pub fn may_make(&mut self, path: &NamePath) -> Result<(), TreeFault>
        ensures fits { OnOk result (length (entry_text (folder_path self.old) path.now)
            ≤ self.old.longest) }
        ensures refused { OnDevice result
            (CannotMake self.old.longest (folder_path self.old) path.now) }
        ensures kept { OnDevice result (KeepsUnmade self.old.longest (folder_path self.old)
            path.now (failure_of self.new)) }
        ensures system { system_of self.new ≡ system_of self.old }
        ensures call { IsOtherCall self.old self.new result }
    {
        let text = self
            .folder
            .text_to_make(path, self.longest, &mut self.syscalls.last);
        count_failure(&mut self.failures, text.map(|_| ()))
    }
}

impl<'a, S: System> HostDest<'a, S> {
    ghost use Rattle.pt_folder.specs.HostDest.{IsOtherCall, KeepsLook, KeepsPeek, Looks, Peeks};

    /// Whether the folder itself is there: `Device` where the system doesn't find it, or finds no
    /// directory, or where something is unsynced, `Memory` where a growth was refused.
    pub fn look_at_folder(&mut self) -> Result<(), TreeFault>
        ensures asked { Looks IsThere self.old self.new [] result }
        ensures kept { OnDevice result (KeepsLook self.old self.new []) }
        ensures call { IsOtherCall self.old self.new result }
    {
        if self.unsynced.is_some() {
            return self.refuse();
        }
        let top = NamePath::new(self.syscalls.last.alloc);
        let there = self.syscalls.is_there(&self.folder, &top);
        count_failure(&mut self.failures, there)
    }

    /// The block becomes the first bytes of what stands at a path, up to 8,192, whatever that is.
    /// On a fault the block is empty: `Device` where the system can't give them, or where something
    /// is unsynced, `Memory` where a growth was refused.
    pub fn first_bytes(&mut self, path: &NamePath, block: &mut Block) -> Result<(), TreeFault>
        ensures empty { OnErr result (block.new.items ≡ []) }
        ensures asked { Peeks self.old self.new path.now block.new.items result }
        ensures kept { OnDevice result (KeepsPeek self.old self.new path.now) }
        ensures call { IsOtherCall self.old self.new result }
    {
        if self.unsynced.is_some() {
            block.clear();
            return self.refuse();
        }
        let peeked = self.syscalls.peek(&self.folder, path, block);
        count_failure(&mut self.failures, peeked)
    }
}

impl<'a, S: System> HostDest<'a, S> {
    ghost use Rattle.pt_folder.specs.HostDest.{IsOtherCall, failure_of, system_of};

    /// Refuses a call, as one that was asked of another device over this one, or where something is
    /// unsynced: `Device` always. It counts as a failure, without a path; the system isn't asked.
    pub fn refuse<T>(&mut self) -> Result<T, TreeFault>
        ensures refused { result ≡ Err Device }
        ensures system { system_of self.new ≡ system_of self.old }
        ensures last { failure_of self.new ≡ None }
        ensures call { IsOtherCall self.old self.new result }
    {
        self.syscalls.last.failure = None;
        count_failure(&mut self.failures, Err(TreeFault::Device))
    }
}

impl<'a, S: System> Dest for HostDest<'a, S> {
    ghost use Rattle.pt_tree.specs.Dest.{CanPeek, CanWrite, IsKindAt, IsPeeked, LeavesPart};
    ghost use Rattle.pt_tree.specs.Dest.{MayMake, MayMove};
    ghost use Rattle.pt_tree.specs.Dest.{after_mkdir, after_create, after_append, after_finish};
    ghost use Rattle.pt_tree.specs.Dest.{after_rename};
    ghost use Rattle.pt_folder.specs.DestHeld.{tree_with};
    ghost use Rattle.pt_folder.specs.Steps.{Serves, none, steps_on};
    ghost use Rattle.pt_folder.specs.UnsyncedChange.{open_if_unsynced, unsynced_by_finish};
    ghost use Rattle.pt_folder.specs.HostDest.{Closes, IsCall, IsLook, IsOtherCall, KeepsClose};
    ghost use Rattle.pt_folder.specs.HostDest.{KeepsDir};
    ghost use Rattle.pt_folder.specs.HostDest.{KeepsFile, KeepsLook, KeepsMove, KeepsPeek};
    ghost use Rattle.pt_folder.specs.HostDest.{KeepsWrite, Looks, MakesDir};
    ghost use Rattle.pt_folder.specs.HostDest.{MakesFile, Moves, Peeks, Writes, folder_path};
    ghost use Rattle.pt_folder.specs.HostDest.{system_of, told};

    ghost told = { told };

    ghost failed = { λ d. d.failures };

    // It is the same folder with the same settings, by which each call has asked the system.
    ghost keeps = { Serves };

    ghost is_kept = { λ _. ((refl, (refl, refl)), none) };

    ghost keeps_on = { λ a b c p q.
        ((q.0.0 ∙ p.0.0, (q.0.1.0 ∙ p.0.1.0, q.0.1.1 ∙ p.0.1.1)), steps_on a b c p.1 q.1) };

    ghost is_tree = { λ d state is.
        tree_with (S.kept d.syscalls.system d.folder.path.now) d.unsynced d.writing state
        (S.tree_law d.syscalls.system d.folder.path.now) d.back is };

    fn failures(&self) -> u64 {
        self.failures
    }

    fn kind(&mut self, path: &NamePath) -> Result<Option<Kind>, TreeFault>
        ensures kind { IfOk result (λ kind. IsKindAt (told self.old) path.now kind) }
        ensures same { told self.new ≡ told self.old }
        ensures asked { Looks LeadsToKind self.old self.new path.now result }
        ensures kept { OnDevice result (KeepsLook self.old self.new path.now) }
        ensures at { OnOk result (string_bytes self.new.at
            ≡ entry_text (folder_path self.old) path.now) }
        ensures still { OnErr result (self.new.at ≡ self.old.at) }
        ensures call { IsLook self.old self.new result }
    {
        if self.unsynced.is_some() {
            return self.refuse();
        }
        let kind = self.syscalls.kind_at(&self.folder, path, &mut self.at);
        count_failure(&mut self.failures, kind)
    }

    fn peek(&mut self, path: &NamePath, block: &mut Block) -> Result<(), TreeFault>
        requires { CanPeek (told self.old) path.now }
        ensures block { OnOk result (IsPeeked (told self.old) path.now block.new.items) }
        ensures empty { OnErr result (block.new.items ≡ []) }
        ensures same { told self.new ≡ told self.old }
        ensures asked { Peeks self.old self.new path.now block.new.items result }
        ensures kept { OnDevice result (KeepsPeek self.old self.new path.now) }
        ensures call { IsOtherCall self.old self.new result }
    {
        self.first_bytes(path, block)
    }

    fn mkdir(&mut self, path: &NamePath) -> Result<(), TreeFault>
        requires { MayMake (told self.old) path.now }
        ensures made { OnOk result (told self.new
            ≡ option_map (after_mkdir path.now) (told self.old)) }
        ensures same { OnErr result (told self.new ≡ told self.old) }
        ensures asked { MakesDir self.old self.new path.now result }
        ensures kept { OnDevice result (KeepsDir self.old self.new path.now) }
        ensures call { IsOtherCall self.old self.new result }
    {
        if self.unsynced.is_some() {
            return self.refuse();
        }
        let made = self.syscalls.make_dir(&self.folder, path, self.longest);
        count_failure(&mut self.failures, made)
    }

    fn create(&mut self, path: &NamePath) -> Result<(), TreeFault>
        requires { MayMake (told self.old) path.now }
        ensures made { OnOk result (told self.new
            ≡ option_map (after_create path.now) (told self.old)) }
        ensures same { OnErr result (told self.new ≡ told self.old) }
        ensures opened { OnOk result (IsMadeAt path.now self.new.writing) }
        ensures writing { OnErr result (self.new.writing ≡ self.old.writing) }
        ensures asked { MakesFile self.old self.new path.now result }
        ensures kept { OnDevice result (KeepsFile self.old self.new path.now) }
        ensures call { IsCall self.old self.new self.old.unsynced result }
    {
        if self.unsynced.is_some() {
            return self.refuse();
        }
        let made = create(
            &mut self.syscalls,
            &self.folder,
            path,
            self.longest,
            &mut self.writing,
        );
        count_failure(&mut self.failures, made)
    }

    fn append(&mut self, piece: &[u8]) -> Result<(), TreeFault>
        requires { CanWrite (told self.old) }
        ensures added { OnOk result (told self.new
            ≡ option_map (after_append piece.now) (told self.old)) }
        ensures part { OnErr result (LeavesPart (told self.old) (told self.new) piece.now) }
        ensures closed { IfNone self.old.writing (result ≡ Err Device) }
        ensures writes { Writes self.old self.new piece.now result }
        ensures kept { OnDevice result (KeepsWrite self.old self.new piece.now) }
        ensures call { IsCall self.old self.new self.old.unsynced result }
    {
        if self.unsynced.is_some() {
            return self.refuse();
        }
        let added = add(&mut self.syscalls, &self.folder, &mut self.writing, piece);
        count_failure(&mut self.failures, added)
    }

    fn finish(&mut self) -> Result<(), TreeFault>
        requires { CanWrite (told self.old) }
        ensures finished { OnOk result (told self.new ≡ option_map after_finish (told self.old)) }
        ensures same { OnErr result (told self.new ≡ told self.old) }
        ensures closed { Closes self.old result }
        ensures kept { OnDevice result (KeepsClose self.old self.new) }
        ensures writing { self.new.writing ≡ open_if_unsynced self.old.unsynced self.old.writing }
        ensures system { system_of self.new ≡ system_of self.old }
        ensures call { IsCall self.old self.new
            (unsynced_by_finish self.old.unsynced self.old.writing result) result }
    {
        if self.unsynced.is_some() {
            return self.refuse();
        }
        let closed = close(
            &mut self.syscalls.last,
            &self.folder,
            &mut self.writing,
            self.synced,
            &mut self.unsynced,
        );
        count_failure(&mut self.failures, closed)
    }

    fn rename(&mut self, from: &NamePath, to: &NamePath) -> Result<(), TreeFault>
        requires { MayMove (told self.old) from.now to.now }
        ensures moved { OnOk result (told self.new
            ≡ option_map (after_rename from.now to.now) (told self.old)) }
        ensures same { OnErr result (told self.new ≡ told self.old) }
        ensures writing { OnErr result (self.new.writing ≡ self.old.writing) }
        ensures left { OnOk result (self.new.writing
            ≡ open_unless_within from.now self.old.writing) }
        ensures asked { Moves self.old self.new from.now to.now result }
        ensures kept { OnDevice result (KeepsMove self.old self.new from.now to.now) }
        ensures call { IsCall self.old self.new self.new.unsynced result }
    {
        if self.unsynced.is_some() {
            return self.refuse();
        }
        let synced = self.synced;
        let asked = Move { from, to, synced };
        let moved = move_entry(&mut self.syscalls, &self.folder, &asked, &mut self.unsynced);
        close_moved(&mut self.writing, from, &moved);
        count_failure(&mut self.failures, moved)
    }
}
