//! What is alike in a run, an audit and a check on a machine: the guard before it, with its lock,
//! the event that records it, and the list that it is held against.
//!
//! `make_guarded` makes an operation behind the guard (`MakesGuarded`): `run_guarded` and
//! `audit_guarded` are each that, of their own options. A check has no guard, and `check_store` is
//! `make_recorded` (`MakesRecorded`). With a list of identifiers the status is 1 in place of 0 just
//! where one of them is unmet, and without one it stays (`EndsWithList`). Each that is unmet is
//! told by a line, in the order of the list, unless a fault ended what was made (`TellsList`).
ghost use Rattle.pt_guard.specs.Guard.{Begins};
ghost use Rattle.pt_host.specs.Operation.{Makes, MakesGuarded, MakesRecorded};
ghost use Rattle.pt_messages.specs.Expected.{AsksEnd};

use crate::event::{begin_event, end_event, end_unbegun};
use crate::folders::Folders;
use crate::operation::{Conclusion, Guarded, Operation};
use crate::saying::{end_with_refusal, tell_end, tell_why};
use crate::unmet::end_with_list;
use crate::{Host, Machine};
use pt_guard::{FolderLock, GuardFault, begin};
use pt_messages::{Reads, ReadsFiles, Terminals, prefix, reason};
use std::alloc::AllocGlobal;
use std::rt::Clock;

/// Makes an operation between two folders, where the guard lets it begin, and gives the exit
/// status.
///
/// It is recorded as by `make_recorded`. The lock is given back last.
pub(crate) fn make_guarded<R, H: Host, O: Guarded + Drop>(
    rt: &R,
    host: &mut H,
    operation: O,
    folders: Folders<'_>,
) -> u8
where
    R: Reads + Clock + Eprint + AllocGlobal + Terminals,
    ensures { MakesGuarded ⟦<H as Machine>⟧.words
        (AsksEnd (⟦<R as ReadsFiles>⟧.file_words rt.now)) O.Operation
        (O.claims, ((folders.entry.store.now, folders.entry.folder.now), operation))
        (host.old, host.new) result }
{
    let lock = match check_guard(rt, host, &operation, folders) {
        Ok(lock) => lock,
        Err(fault) => return end_with_refusal(host, fault),
    };
    let status = make_recorded(rt, host, operation, folders);
    match lock {
        FolderLock::Held(lock) => host.release(lock),
        FolderLock::Unheld(_) => {}
    }
    status
}

/// Makes an operation over two folders, which may begin, and gives the exit status.
///
/// Where a file is named for its event, that is made first, and replaced at the end. Standard error
/// is told of which identifiers of its list no object was met.
pub(crate) fn make_recorded<R, H: Host, O: Operation + Drop>(
    rt: &R,
    host: &mut H,
    operation: O,
    folders: Folders<'_>,
) -> u8
where
    R: Reads + Clock + Eprint + AllocGlobal + Terminals,
    ensures { MakesRecorded ⟦<H as Machine>⟧.words
        (AsksEnd (⟦<R as ReadsFiles>⟧.file_words rt.now)) O.Operation
        ((folders.entry.store.now, folders.entry.folder.now), operation)
        (host.old, host.new) result }
{
    match begin_event(rt, host, &operation, folders) {
        Ok(event) => {
            let made = make_told(rt, host, operation, folders);
            end_event(rt, host, event, &made)
        }
        Err(fault) => end_unbegun(rt, host, &fault, operation.feedback().event()),
    }
}

// Makes an operation over two folders, which may begin, and gives how it ended, with its list or
// without one. Standard error is told of the fault that ended it, if one did, and of which
// identifiers of its list no object was met.
fn make_told<R, H: Host, O: Operation + Drop>(
    rt: &R,
    host: &mut H,
    operation: O,
    folders: Folders<'_>,
) -> Conclusion
where
    R: Reads + Clock + Eprint + AllocGlobal + Terminals,
    ensures { Makes ⟦<H as Machine>⟧.words
        (AsksEnd (⟦<R as ReadsFiles>⟧.file_words rt.now)) O.Operation
        ((folders.entry.store.now, folders.entry.folder.now), operation)
        (host.old, host.new) result }
{
    let has_list = operation.has_list();
    let verbose = operation.feedback().verbose;
    let made = operation.make(rt, host, folders);
    tell_end(host, &made.outcome);
    tell_why(rt, &made.outcome, verbose, folders);
    let status = end_with_list(rt.alloc(), host, has_list, &made);
    Conclusion {
        status,
        outcome: made.outcome,
        unmet: made.unmet,
    }
}

// Asks the guard whether the operation may begin, and for the lock that it wants. Where it may, and
// that is wanted, standard error is told of a prefix that reads otherwise than it looks, and of a
// destination that can't be locked.
fn check_guard<R: Reads + Eprint + AllocGlobal, H: Host, O: Guarded>(
    rt: &R,
    host: &mut H,
    operation: &O,
    folders: Folders<'_>,
) -> Result<FolderLock<H::Lock>, GuardFault>
    ensures { Begins H.Places.does O.claims
        (folders.entry.store.now, folders.entry.folder.now) host.old host.new result }
{
    let answer = begin(
        host,
        rt.alloc(),
        operation.claim(),
        folders.store,
        folders.folder,
    );
    if operation.feedback().verbose
        && let Ok(lock) = &answer
    {
        prefix::tell(rt, folders.store);
        if let FolderLock::Unheld(error) = lock {
            reason::tell_unlocked(rt, folders.folder, error);
        }
    }
    answer
}
