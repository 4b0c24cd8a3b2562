// The open file of a folder that is written: how it is made, added to and closed.
ghost use Rattle.std.specs.Prelude.{◌≡◌, None, Err, IfNone, IfSome, OnOk, OnErr};
ghost use Rattle.pt_tree.specs.declared.faults.TreeFault.TheVariants.{Device};
ghost use Rattle.pt_folder.specs.Folder.{entry_in, entry_text};
ghost use Rattle.pt_folder.specs.Calls.{MakesOnce, change_of};
ghost use Rattle.pt_folder.specs.Failure.{KeepsMaking, OnDevice};
ghost use Rattle.pt_folder.specs.UnsyncedChange.{unsynced_by_close};
ghost use Rattle.pt_folder.specs.Writing.{ClosesBy, FailsToAdd, IsMadeAt, IsOfWriting, MakesAt};
ghost use Rattle.pt_folder.specs.Writing.{WritesTo, open_unless_within};

use crate::bytes::write_pieces;
use crate::failure::{FailureReason, Last};
use crate::folder::Folder;
use crate::syscalls::Syscalls;
use crate::system::{Handle, System};
use crate::unsynced_change::UnsyncedChange;
use pt_tree::{NamePath, TreeFault};

/// The open file of a folder that is written, and its path.
#[derive(Drop)]
pub struct FileInWriting<F> {
    pub file: F,
    pub path: NamePath,
}

// Makes an empty file where nothing stands, and makes it the open one.
pub(crate) fn create<S: System>(
    syscalls: &mut Syscalls<S>,
    folder: &Folder<'_>,
    path: &NamePath,
    longest: usize,
    writing: &mut Option<FileInWriting<S::File>>,
) -> Result<(), TreeFault>
    ensures opened { OnOk result (IsMadeAt path.now writing.new) }
    ensures same { OnErr result (writing.new ≡ writing.old) }
    ensures asked { MakesOnce longest S.makes_file
        (MakesAt path.now writing.old writing.new)
        (entry_in folder.now.path.now path.now)
        (change_of syscalls.old.system syscalls.new.system) result }
    ensures kept { OnDevice result (KeepsMaking longest folder.now.path.now path.now
        (λ e. S.makes_file syscalls.old.system (entry_text folder.now.path.now path.now) (Err e)
        syscalls.new.system) syscalls.new.last.failure) }
{
    let text = folder.text_to_make(path, longest, &mut syscalls.last)?;
    let path = path.copy()?;
    match syscalls.system.create_new(text.as_str()) {
        Ok(file) => {
            *writing = Some(FileInWriting { file, path });
            Ok(())
        }
        Err(error) => Err(syscalls.last.record_error(text, error)),
    }
}

// Adds a piece to the open file, which stays open; where none is open, it is a failure.
pub(crate) fn add<S: System>(
    syscalls: &mut Syscalls<S>,
    folder: &Folder<'_>,
    writing: &mut Option<FileInWriting<S::File>>,
    piece: &[u8],
) -> Result<(), TreeFault>
    ensures closed { IfNone writing.old (result ≡ Err Device) }
    ensures writes { WritesTo S.writes (change_of syscalls.old.system syscalls.new.system)
        writing.old writing.new piece.now result }
    ensures kept { OnDevice result (IfSome syscalls.new.last.failure
        (IsOfWriting folder.now.path.now (FailsToAdd S.writes piece.now syscalls.old.system)
        writing.old)) }
{
    match writing {
        Some(open) => match write_pieces(&mut syscalls.system, &mut open.file, piece) {
            Ok(()) => Ok(()),
            Err(error) => Err(folder.record_error_at(&open.path, error, &mut syscalls.last)),
        },
        None => {
            let alloc = syscalls.last.alloc;
            syscalls
                .last
                .keep(String::new(alloc), FailureReason::Closed);
            Err(TreeFault::Device)
        }
    }
}

// Closes the open file, which is put onto the disk first where that is asked for: where that isn't
// possible, it is unsynced. Where none is open, it is a failure.
pub(crate) fn close<F: Handle + Drop>(
    last: &mut Last,
    folder: &Folder<'_>,
    writing: &mut Option<FileInWriting<F>>,
    synced: bool,
    unsynced: &mut Option<UnsyncedChange>,
) -> Result<(), TreeFault>
    ensures closed { ClosesBy F.syncs synced writing.old result }
    ensures kept { OnDevice result (IfSome last.new.failure (IsOfWriting folder.now.path.now
        (λ w e. (after : F) × F.syncs w (Err e) after) writing.old)) }
    ensures writing { writing.new ≡ None }
    ensures unsynced { unsynced.new ≡ unsynced_by_close unsynced.old writing.old result }
{
    let Some(mut open) = writing.take() else {
        last.keep(String::new(last.alloc), FailureReason::Closed);
        return Err(TreeFault::Device);
    };
    if !synced {
        return Ok(());
    }
    match open.file.sync() {
        Ok(()) => Ok(()),
        Err(error) => {
            folder.record_error_at(&open.path, error, last);
            *unsynced = Some(UnsyncedChange::Closed(open.path));
            Err(TreeFault::Device)
        }
    }
}

// Closes the open file if it is at a path or below.
fn close_within<F: Drop>(writing: &mut Option<FileInWriting<F>>, path: &NamePath)
    ensures { writing.new ≡ open_unless_within path.now writing.old }
{
    if let Some(open) = writing {
        if open.path.is_within(path) {
            *writing = None;
        }
    }
}

// The same where what stood there was moved.
pub(crate) fn close_moved<F: Drop>(
    writing: &mut Option<FileInWriting<F>>,
    path: &NamePath,
    moved: &Result<(), TreeFault>,
)
    ensures same { OnErr moved.now (writing.new ≡ writing.old) }
    ensures left { OnOk moved.now (writing.new ≡ open_unless_within path.now writing.old) }
{
    if moved.is_ok() {
        close_within(writing, path);
    }
}
