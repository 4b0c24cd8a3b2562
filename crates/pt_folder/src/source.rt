//! A folder of the system as a source.
//!
//! It meets `Source`: a listing is what stands there, in order; a file is read as it was at its
//! opening; a failed call changes nothing of it. Where its system tells at which paths it fails, it
//! fails just there (`failing_of`). Which calls of the system each call makes:
//!
//! - `kind`: one, on the folder's path with the names behind it, and its answer (`AsksOnce`).
//!   Nothing is asked where the folder's path is empty or memory is wanting.
//! - `open`: a look, and where a file stands, links not followed, the opening (`OpensOnce`); what
//!   is no file is a failure, and isn't opened.
//! - `next`: reads one after another into the room that is left, until there is none or a read
//!   gives nothing (`ReadsBlock`). It fails exactly as one read did, and none follows that
//!   (`FailsToRead`). After a failed read the next call goes back to the place first, and where
//!   that fails, the one after it (`FailsToReadOn`).
//! - `list`: opens the directory once, reads it (`GetsNames`), and looks at each entry once, in the
//!   listing's order; it gives at most 16,777,216. It answers `Device` only with a cause
//!   (`FailsToList`). What is behind a `Memory` of `list` isn't said.
//! - `list_named`: the same past bytes that are no name (`IsListedPast`): those are given apart,
//!   each once for each time that the directory gives them, in their order, and at most 16,777,216
//!   (`GivesApart`). Where it isn't read to its end, what was given apart before stays; `Device`
//!   comes only with a cause (`FailsToListPast`). What is behind a `Memory` isn't said.
ghost use Rattle.std.specs.Prelude.{◌≡◌, [], Some, None, Err, IfErr, IfOk, IfSome, OnOk, OnErr};
ghost use Rattle.std.specs.Prelude.{string_bytes};
ghost use Rattle.std.specs.Prelude.{drop as drop_items};
ghost use Rattle.std.specs.Option.{option_map};
ghost use Rattle.pt_tree.specs.declared.faults.TreeFault.TheVariants.{Device};
ghost use Rattle.pt_folder.specs.Syscalls.{new_syscalls};
ghost use Rattle.pt_folder.specs.Calls.{change_of};
ghost use Rattle.pt_folder.specs.Failure.{OnDevice};
ghost use Rattle.pt_folder.specs.Folder.{entry_in, entry_text};
ghost use Rattle.pt_folder.specs.Opening.{KeepsOpening, OpensOnce};
ghost use Rattle.pt_folder.specs.Reading.{IsNext, IsOfReading, ReadsBy, StandsOpen, unread_open};

use crate::bytes::ReadBuffer;
use crate::failure::{Failure, FailureReason, Last};
use crate::folder::{Folder, count_failure};
use crate::reading::FileInReading;
use crate::syscalls::Syscalls;
use crate::system::{Handle, Input, System};
use crate::{listing, parting};
use pt_tree::{BLOCK, Block, Kind, Listing, ListsNamed, NamePath, Source, TreeFault};
use std::alloc::Global;

/// A folder of the system as a source. It tells the tree that the system keeps there, where it
/// keeps one, and where it fails, where the system tells that.
#[derive(Drop)]
pub struct HostSource<'a, S: System> {
    syscalls: Syscalls<S>,
    folder: Folder<'a>,
    reading: Option<FileInReading<S::File>>,
    at: String,
    looked: String,
    // What the names of a directory and the bytes of a file are read into.
    room: ReadBuffer,
    failures: u64,
    calls: u64,
    ghost stands: { StandsOpen ⟦<S::File as Input>⟧.bytes ⟦<S::File as Input>⟧.left reading },
}

impl<'a, S: System> HostSource<'a, S> {
    ghost use Rattle.pt_folder.specs.HostSource.{failure_of, folder_path, system_of};

    /// A source over the folder at a path of a system, as the runtime's. It calls nothing and takes
    /// no memory.
    pub fn new(system: S, alloc: Global, path: &'a str) -> HostSource<'a, S>
        ensures failures { result.failures ≡ 0 }
        ensures calls { result.calls ≡ 0 }
        ensures path { folder_path result ≡ path.now }
        ensures syscalls { result.syscalls ≡ new_syscalls system alloc }
        ensures reading { result.reading ≡ None }
        ensures at { string_bytes result.at ≡ [] }
        ensures looked { string_bytes result.looked ≡ [] }
    {
        HostSource {
            syscalls: Syscalls::new(system, alloc),
            folder: Folder { path },
            reading: None,
            at: String::new(alloc),
            looked: String::new(alloc),
            room: [0; BLOCK],
            failures: 0,
            calls: 0,
        }
    }

    /// The last failure: after each call that answers `Device` just that one, its path and its
    /// cause (`KeepsCall`, `KeepsListing`). Of `list` and `next`, which copy or make the path's
    /// text then, none is kept where memory for it was refused, and no earlier one stays.
    pub fn last_failure(&self) -> Option<&Failure>
        ensures { option_map (λ f. f.now) result ≡ failure_of self.now }
    {
        self.syscalls.last.failure.as_ref()
    }

    /// The path of the file that was opened last; empty before the first.
    pub fn opened_path(&self) -> &str
        ensures { result.now ≡ string_bytes self.now.at }
    {
        self.at.as_str()
    }

    /// The path that `kind` answered last; empty before the first.
    pub fn looked_path(&self) -> &str
        ensures { result.now ≡ string_bytes self.now.looked }
    {
        self.looked.as_str()
    }

    /// The system, as the calls left it; the open file is closed.
    pub fn into_system(self) -> S
        ensures { result ≡ system_of self.entry }
    {
        self.syscalls.system
    }
}

impl<'a, S: System> Source for HostSource<'a, S> {
    ghost use Rattle.std.specs.Prelude.{Option};
    ghost use Rattle.pt_tree.specs.Source.{CanList, IsListed, CanLook, IsSeen, CanOpen, CanRead};
    ghost use Rattle.pt_tree.specs.Source.{IsRead};
    ghost use Rattle.pt_tree.specs.Source.{after_open, after_next, tree_in};
    ghost use Rattle.pt_folder.specs.Devices.{was_called};
    ghost use Rattle.pt_folder.specs.HostSource.{CannotList, IsCall, IsLookedAt, IsReading};
    ghost use Rattle.pt_folder.specs.HostSource.{KeepsList, KeepsLook};
    ghost use Rattle.pt_folder.specs.HostSource.{KeepsOpen, KeepsRead, Lists, Looks, Opens, Reads};
    ghost use Rattle.pt_folder.specs.HostSource.{IsSameFolder, failing, folder_path, is_same_folder};
    ghost use Rattle.pt_folder.specs.HostSource.{open_file, same_folder_on, same_paths, told};
    ghost use Rattle.pt_folder.specs.SourceHeld.{proper_held};

    ghost told = { told };

    ghost failing = { failing };

    ghost failed = { λ s. s.failures };

    ghost called = { λ s. was_called s.calls };

    ghost keeps = { IsSameFolder };

    ghost is_kept = { is_same_folder };

    ghost keeps_on = { same_folder_on };

    ghost keeps_failing = { same_paths };

    ghost proper = { λ s state is. proper_held (S.forest s.syscalls.system s.folder.path.now)
        (unread_open ⟦<S::File as Input>⟧.bytes s.reading) state
        (S.proper_law s.syscalls.system s.folder.path.now) is };

    fn failures(&self) -> u64 {
        self.failures
    }

    fn list(&mut self, path: &NamePath) -> Result<Listing, TreeFault>
        requires { CanList (told self.old) path.now }
        ensures listing { IfOk result (λ listing. IsListed (told self.old) path.now listing) }
        ensures listed { IfOk result (Lists self.old self.new path.now) }
        ensures fault { IfErr result (CannotList self.old self.new path.now) }
        ensures same { told self.new ≡ told self.old }
        ensures kept { OnDevice result (KeepsList self.old self.new path.now) }
        ensures reading { open_file self.new ≡ open_file self.old }
        ensures call { IsCall self.old self.new result }
    {
        self.calls = self.calls.wrapping_add(1);
        let listing = listing::list(&mut self.syscalls, &self.folder, path, &mut self.room);
        count_failure(&mut self.failures, listing)
    }

    fn kind(&mut self, path: &NamePath) -> Result<Option<Kind>, TreeFault>
        requires { CanLook (tree_in (told self.old)) path.now }
        ensures kind { IfOk result (λ here. IsSeen (tree_in (told self.old)) path.now here) }
        ensures same { told self.new ≡ told self.old }
        ensures asked { Looks self.old self.new path.now result }
        ensures kept { OnDevice result (KeepsLook self.old self.new path.now) }
        ensures looked { IsLookedAt self.old self.new path.now result }
        ensures reading { open_file self.new ≡ open_file self.old }
        ensures call { IsCall self.old self.new result }
    {
        self.calls = self.calls.wrapping_add(1);
        let kind = self.syscalls.kind_at(&self.folder, path, &mut self.looked);
        count_failure(&mut self.failures, kind)
    }

    fn open(&mut self, path: &NamePath) -> Result<(), TreeFault>
        requires { CanOpen (told self.old) path.now }
        ensures opened { OnOk result (told self.new
            ≡ option_map (after_open path.now) (told self.old)) }
        ensures same { OnErr result (told self.new ≡ told self.old) }
        ensures reading { OnErr result (open_file self.new ≡ open_file self.old) }
        ensures asked { Opens self.old self.new path.now result }
        ensures at { OnOk result (string_bytes self.new.at
            ≡ entry_text (folder_path self.old) path.now) }
        ensures kept { OnDevice result (KeepsOpen self.old self.new path.now) }
        ensures call { IsCall self.old self.new result }
    {
        self.calls = self.calls.wrapping_add(1);
        let opened = open(
            &mut self.syscalls,
            &self.folder,
            path,
            &mut self.reading,
            &mut self.at,
        );
        count_failure(&mut self.failures, opened)
    }

    fn next(&mut self, block: &mut Block) -> Result<(), TreeFault>
        requires { CanRead (told self.old) }
        ensures block { OnOk result (IsRead (told self.old) block.new.items) }
        ensures moved { OnOk result (told self.new ≡ option_map after_next (told self.old)) }
        ensures empty { OnErr result (block.new.items ≡ []) }
        ensures same { OnErr result (told self.new ≡ told self.old) }
        ensures reads { Reads self.old self.new block.new.items result }
        ensures kept { OnDevice result (KeepsRead self.old self.new) }
        ensures call { IsReading self.old self.new result }
    {
        self.calls = self.calls.wrapping_add(1);
        let read = read_on(
            &mut self.reading,
            block,
            &mut self.room,
            self.at.as_str(),
            &mut self.syscalls.last,
        );
        count_failure(&mut self.failures, read)
    }
}

impl<'a, S: System> ListsNamed for HostSource<'a, S> {
    ghost use Rattle.pt_tree.specs.Source.{CanList, IsListed};
    ghost use Rattle.pt_folder.specs.HostSource.{CannotListPast, IsCall, KeepsList, ListsPast};
    ghost use Rattle.pt_folder.specs.HostSource.{open_file, told};

    fn list_named(
        &mut self,
        path: &NamePath,
        refused: &mut Vec<Vec<u8>>,
    ) -> Result<Listing, TreeFault>
        requires { CanList (told self.old) path.now }
        ensures listing { IfOk result (λ listing. IsListed (told self.old) path.now listing) }
        ensures listed { IfOk result (ListsPast self.old self.new path.now refused.new.items) }
        ensures fault { IfErr result (CannotListPast self.old self.new path.now
            (change_of refused.old.items refused.new.items)) }
        ensures same { told self.new ≡ told self.old }
        ensures kept { OnDevice result (KeepsList self.old self.new path.now) }
        ensures reading { open_file self.new ≡ open_file self.old }
        ensures call { IsCall self.old self.new result }
    {
        self.calls = self.calls.wrapping_add(1);
        let listing = parting::list_named(
            &mut self.syscalls,
            &self.folder,
            path,
            &mut self.room,
            refused,
        );
        count_failure(&mut self.failures, listing)
    }
}

// Opens an entry for reading, and makes it the open file. It is looked at first: what is no file
// now isn't opened, since opening a pipe waits for its writer.
fn open<S: System>(
    syscalls: &mut Syscalls<S>,
    folder: &Folder<'_>,
    path: &NamePath,
    opened: &mut Option<FileInReading<S::File>>,
    at: &mut String,
) -> Result<(), TreeFault>
    ensures same { OnErr result (opened.new ≡ opened.old) }
    ensures still { OnErr result (at.new ≡ at.old) }
    ensures asked { OpensOnce S.System (entry_in folder.now.path.now path.now)
        (change_of opened.old opened.new)
        (change_of syscalls.old.system syscalls.new.system) result }
    ensures at { OnOk result (string_bytes at.new ≡ entry_text folder.now.path.now path.now) }
    ensures kept { OnDevice result (KeepsOpening S.System
        (entry_in folder.now.path.now path.now)
        (change_of syscalls.old.system syscalls.new.system) syscalls.new.last.failure) }
{
    let text = folder.text(path, &mut syscalls.last)?;
    let text = syscalls.look_at_file(text)?;
    match syscalls.system.open_to_read(text.as_str()) {
        Ok(file) => {
            *opened = Some(FileInReading::at_start(file));
            *at = text;
            Ok(())
        }
        Err(error) => Err(syscalls.last.record_error(text, error)),
    }
}

// The block becomes the next bytes of the open file; behind its end the system isn't asked again.
// Where no file is open, it is a failure. After an error of the system the file stays open, and is
// read on from where it was. On a fault the block is empty. The bytes may be read into `room`
// first. `at` is the file's path, with which a failure is kept.
fn read_on<F: Handle + Drop>(
    reading: &mut Option<FileInReading<F>>,
    block: &mut Block,
    room: &mut ReadBuffer,
    at: &str,
    last: &mut Last,
) -> Result<(), TreeFault>
    requires { StandsOpen F.bytes F.left reading.old }
    ensures stands { StandsOpen F.bytes F.left reading.new }
    ensures block { OnOk result (IsNext (unread_open F.bytes reading.old) block.new.items) }
    ensures moved { OnOk result (unread_open F.bytes reading.new
        ≡ option_map (drop_items 8192) (unread_open F.bytes reading.old)) }
    ensures same { OnErr result (unread_open F.bytes reading.new
        ≡ unread_open F.bytes reading.old) }
    ensures empty { OnErr result (block.new.items ≡ []) }
    ensures reads { ReadsBy F.reads F.goes reading.old reading.new block.new.items result }
    ensures kept { OnDevice result
        (IfSome last.new.failure (IsOfReading F.reads F.goes at.now reading.old)) }
{
    match reading {
        Some(open) => match open.read(block, room) {
            Ok(()) => Ok(()),
            Err(error) => Err(last.record_error_at_copy(at, error)),
        },
        None => {
            block.clear();
            last.keep_copy(at, FailureReason::Closed);
            Err(TreeFault::Device)
        }
    }
}
