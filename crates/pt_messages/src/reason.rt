//! Why a run failed, in a line of its own: the path of the call that failed, and the system's text,
//! or the program's where no call failed.
ghost use Rattle.std.specs.Option.{option_map};
ghost use Rattle.std.specs.Prelude.{◌≡◌, IfOk, OnOk, string_bytes};
ghost use Rattle.pt_folder.specs.HostSource.{failure_of};
ghost use Rattle.pt_messages.specs.Members.{PutsWhy, members_of};
ghost use Rattle.pt_messages.specs.Reasons.{Explains, IsAt, IsOfFailure, IsOfFault};
ghost use Rattle.pt_messages.specs.Reasons.{IsOfNoStore, IsUnlockedLine, explanation_of};
ghost use Rattle.pt_messages.specs.Reasons.{reason_line};

use crate::members::Members;
use crate::reads::Reads;
use crate::shown::escape;
use pt_folder::{Failure, HostDest, HostSource, System};
use pt_move::Fault;
use std::alloc::{AllocError, AllocGlobal, Global};
use std::io;
use std::io::ErrorKind;
use std::path::PathBuf;

const ROOT: &str = "pairtree_root";

const VERSION: &str = "pairtree_version0_1";

// Of what stands where a run stages.
const STAGING_STANDS: &str = "it stands there already";

// Of what stands where a root, or one of its files, would be.
const ANOTHER_ROOT: &str = "it is not what this program makes there with these tuples";

const NO_STORE: &str = "it holds no file pairtree_version0_1 or no directory pairtree_root";

const NO_PREFIX: &str =
    "pairtree_prefix in it is no file, has more than 1024 bytes, or is not UTF-8";

const CHANGED: &str = "it was not the same at its second reading";

/// Why a run or an audit failed: the path of the call that failed or of what was found, and the
/// reason.
#[derive(Drop)]
pub struct FaultReason {
    path: String,
    reason: String,
}

/// What is known of why a run, an audit or a check ended.
#[derive(Drop)]
pub enum Explanation {
    /// Nothing that has a path: no fault ended it, or the fault's own text says all.
    Nothing,
    /// This.
    Known(FaultReason),
    /// There was no memory for it: a growth was refused.
    NoMemory,
}

impl Explanation {
    /// Puts what is known into a record of the fault; an error where there is no memory for it.
    pub(crate) fn put_into(&self, fault: &mut Members) -> Result<(), AllocError>
        ensures { OnOk result (PutsWhy (members_of fault.old) (members_of fault.new)) }
    {
        match self {
            Explanation::Known(reason) => reason.put_into(fault),
            Explanation::Nothing => Ok(()),
            Explanation::NoMemory => Err(AllocError),
        }
    }

    // What such an answer explains.
    fn of(found: Result<Option<FaultReason>, AllocError>) -> Explanation
        ensures { result ≡ explanation_of found }
    {
        match found {
            Ok(Some(reason)) => Explanation::Known(reason),
            Ok(None) => Explanation::Nothing,
            Err(_) => Explanation::NoMemory,
        }
    }
}

/// What a destination's folder tells of the calls on it: the last that failed, and the path that
/// was looked at last.
#[derive(Clone, Copy)]
pub struct LastCalls<'a> {
    failure: Option<&'a Failure>,
    looked_path: &'a str,
}

impl<'a> LastCalls<'a> {
    /// None, of what has no destination.
    pub fn none() -> LastCalls<'a> {
        LastCalls {
            failure: None,
            looked_path: "",
        }
    }

    /// Those on the destination of a run.
    pub fn of_dest<D: System>(dest: &'a HostDest<'_, D>) -> LastCalls<'a> {
        LastCalls {
            failure: dest.last_failure(),
            looked_path: dest.looked_path(),
        }
    }

    /// Those on the root of an audit.
    pub fn of_root<D: System>(root: &'a HostSource<'_, D>) -> LastCalls<'a> {
        LastCalls {
            failure: root.last_failure(),
            looked_path: root.looked_path(),
        }
    }
}

impl FaultReason {
    // This reason at a path.
    fn at(alloc: Global, path: &str, reason: &str) -> Result<Option<FaultReason>, AllocError>
        ensures { IfOk result (IsAt path.now reason.now) }
    {
        Ok(Some(FaultReason {
            path: String::from_str(alloc, path)?,
            reason: String::from_str(alloc, reason)?,
        }))
    }

    /// Whether its path is that of this folder, or of what lies right in it.
    pub fn is_right_in(&self, folder: &str) -> bool {
        match self.path.strip_prefix(folder) {
            Some(rest) => !rest.trim_matches('/').contains('/'),
            None => false,
        }
    }

    // The line by which it is told, without LF.
    fn line(&self, alloc: Global) -> Result<String, AllocError>
        ensures { IfOk result (λ line. string_bytes line ≡ reason_line self.now) }
    {
        let path = escape(alloc, self.path.as_str())?;
        let reason = &self.reason;
        format!(in alloc; "pairtree2ocfl: {path}: {reason}")
    }

    // Puts it into a record of the fault.
    fn put_into(&self, fault: &mut Members) -> Result<(), AllocError>
        ensures { OnOk result (PutsWhy (members_of fault.old) (members_of fault.new)) }
    {
        fault.put_text("path", self.path.as_str())?;
        fault.put_text("reason", self.reason.as_str())
    }
}

/// Why a run, an audit or a check over these folders ended with a fault, where that has a path: its
/// source, at this path, and what its destination tells. `NoMemory` where a growth was refused.
pub fn of_fault<R: Reads + AllocGlobal, S: System>(
    rt: &R,
    fault: &Fault,
    source: &HostSource<'_, S>,
    store: &str,
    dest: LastCalls<'_>,
) -> Explanation
    ensures { Explains (IsOfFault fault.now store.now (failure_of source.now) dest.entry) result }
{
    Explanation::of(find(rt, fault, source, store, dest))
}

// The same, where there is memory for it.
fn find<R: Reads + AllocGlobal, S: System>(
    rt: &R,
    fault: &Fault,
    source: &HostSource<'_, S>,
    store: &str,
    dest: LastCalls<'_>,
) -> Result<Option<FaultReason>, AllocError>
    ensures { IfOk result (IsOfFault fault.now store.now (failure_of source.now) dest.entry) }
{
    let alloc = rt.alloc();
    match fault {
        Fault::Source => of_failure(alloc, source.last_failure()),
        Fault::Dest => of_failure(alloc, dest.failure),
        Fault::NotPairtree => of_no_store(rt, store),
        Fault::Prefix => FaultReason::at(alloc, store, NO_PREFIX),
        Fault::StagingLeft => FaultReason::at(alloc, dest.looked_path, STAGING_STANDS),
        Fault::Target => FaultReason::at(alloc, dest.looked_path, ANOTHER_ROOT),
        Fault::Changed => FaultReason::at(alloc, source.opened_path(), CHANGED),
        Fault::Log | Fault::Memory | Fault::Turns | Fault::Ended => Ok(None),
    }
}

// Why a folder is no store; where it is the `pairtree_root` of one, which folder that is.
fn of_no_store<R: Reads + AllocGlobal>(
    rt: &R,
    store: &str,
) -> Result<Option<FaultReason>, AllocError>
    ensures { IfOk result (IsOfNoStore store.now) }
{
    let alloc = rt.alloc();
    let Some(above) = store_above(rt, store) else {
        return FaultReason::at(alloc, store, NO_STORE);
    };
    let above = escape(alloc, above.as_str())?;
    let reason = format!(in alloc; "it is the pairtree_root of a store: name {above}")?;
    FaultReason::at(alloc, store, reason.as_str())
}

// The folder of the store whose `pairtree_root` a path leads to, links resolved; none where it
// leads to no such folder, or that can't be told.
fn store_above<R: Reads + AllocGlobal>(rt: &R, path: &str) -> Option<PathBuf> {
    let mut above = rt.find_place(rt.alloc(), path).ok()?;
    if above.file_name() != Some(ROOT) || !above.pop() {
        return None;
    }
    let version = above.join(rt.alloc(), VERSION).ok()?;
    let length = rt.own_length(version.as_str()).ok()?;
    length.is_some().then_some(above)
}

// Why a call failed.
fn of_failure(alloc: Global, failure: Option<&Failure>) -> Result<Option<FaultReason>, AllocError>
    ensures { IfOk result (IsOfFailure (option_map (λ f. f.now) failure.entry)) }
{
    match failure {
        Some(failure) => {
            let text = failure.cause().to_string(alloc)?;
            FaultReason::at(alloc, failure.path(), text.as_str())
        }
        None => Ok(None),
    }
}

/// Tells standard error why a run or an audit failed.
pub fn tell<R: Eprint + AllocGlobal>(rt: &R, why: &FaultReason) {
    if let Ok(line) = why.line(rt.alloc()) {
        let _ = eprintln!(rt; "{line}");
    }
}

/// Tells standard error why a destination that is there can't be locked.
pub fn tell_unlocked<R: Eprint + AllocGlobal>(rt: &R, dest: &str, error: &io::Error) {
    if let Ok(Some(line)) = unlocked_line(rt.alloc(), dest, error) {
        let _ = eprintln!(rt; "{line}");
    }
}

// The line by which it is told why a destination can't be locked, without LF; none where it isn't
// there. An error where a growth was refused.
fn unlocked_line(alloc: Global, dest: &str, error: &io::Error) -> Result<Option<String>, AllocError>
    ensures { IfOk result (λ line. IsUnlockedLine dest.now error.now
        (option_map string_bytes line)) }
{
    if error.kind() == ErrorKind::NotFound {
        return Ok(None);
    }
    let path = escape(alloc, dest)?;
    let reason = error.to_string(alloc)?;
    Ok(Some(format!(in alloc; "pairtree2ocfl: {path}: it is not locked: {reason}")?))
}

/// Tells standard error why the log's file can't be put onto its disk.
pub fn tell_unsynced<R: Eprint>(rt: &R, error: &io::Error) {
    let _ = eprintln!(rt; "pairtree2ocfl: the log's file will not be put onto its disk: {error}");
}

/// Tells standard error how many entries were left out by their names, if that is wanted.
pub fn tell_left_out<R: Eprint>(rt: &R, wanted: bool, count: u64) {
    if wanted {
        let _ = eprintln!(rt; "pairtree2ocfl: left out by their names: {count}");
    }
}
