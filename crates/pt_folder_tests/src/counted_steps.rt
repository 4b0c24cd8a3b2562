//! Tests as data: steps of a destination, or of a rehearsal, over a system whose calls are counted.
use crate::counted_system::{Counted, Counts};
use pt_folder::{Failure, FailureReason, HostDest};
use pt_memory::texts::path;
use pt_rehearsal::Rehearsal;
use pt_tree::{Block, Dest, Kind, NamePath, TreeFault};
use std::alloc::Global;

/// A call with what it answers, what is found then, or what changes in the system.
#[derive(Clone, Copy)]
pub enum CountedStep {
    Mkdir(&'static str, Result<(), TreeFault>),
    Create(&'static str, Result<(), TreeFault>),
    Append(&'static str, Result<(), TreeFault>),
    Finish(Result<(), TreeFault>),
    Rename(&'static str, &'static str, Result<(), TreeFault>),
    Kind(&'static str, Result<Option<Kind>, TreeFault>),
    Peek(&'static str, Result<(), TreeFault>),
    /// The block that `Peek` gives has so many bytes.
    Holds(usize),
    /// So often has the system been asked to look, to change something, and to put something onto
    /// the disk.
    Looks(u32),
    Changes(u32),
    Syncs(u32),
    /// So often has the destination failed.
    Failures(u64),
    /// The last call failed at this path, because it is too long, or without a path.
    FailedAt(&'static str),
    TooLong(&'static str),
    NoPath,
    /// Whether the system fails from now on to put something onto the disk.
    SyncsFail(bool),
}

impl CountedStep {
    // The path that a call is about, and the one that it moves to; empty where it has none.
    fn paths(self) -> (&'static str, &'static str) {
        match self {
            CountedStep::Mkdir(at, _) | CountedStep::Create(at, _) => (at, ""),
            CountedStep::Kind(at, _) => (at, ""),
            CountedStep::Peek(at, _) => (at, ""),
            CountedStep::Rename(from, to, _) => (from, to),
            _ => ("", ""),
        }
    }
}

/// The first of these steps over the folder `f` that goes otherwise, where files are put onto the
/// disk, or aren't, and paths have so many bytes at most.
pub fn find_wrong_in_folder(
    alloc: Global,
    sync: bool,
    longest: usize,
    steps: &[CountedStep],
) -> Result<Option<usize>, TreeFault> {
    let counts = Counts::new();
    let mut dest = HostDest::new(counts.system(), alloc, "f")
        .with_sync(sync)
        .with_longest(longest);
    find_wrong_of_folder(&mut dest, &counts, alloc, steps)
}

fn find_wrong_of_folder(
    dest: &mut HostDest<'_, Counted<'_>>,
    counts: &Counts,
    alloc: Global,
    steps: &[CountedStep],
) -> Result<Option<usize>, TreeFault> {
    for (i, step) in steps.iter().enumerate() {
        if !goes_in_folder(dest, counts, alloc, *step)? {
            return Ok(Some(i));
        }
    }
    Ok(None)
}

fn goes_in_folder(
    dest: &mut HostDest<'_, Counted<'_>>,
    counts: &Counts,
    alloc: Global,
    step: CountedStep,
) -> Result<bool, TreeFault> {
    let (from, to) = step.paths();
    match check_folder_call(dest, step, &path(alloc, from)?, &path(alloc, to)?) {
        Some(is_answer) => Ok(is_answer),
        None => Ok(is_found(counts, dest.failures(), dest.last_failure(), step)),
    }
}

// Whether a call of the folder is answered so; none of a step that is no call of it.
#[tactic(auto, using(pt_folder::specs::DestHeld::untold_may_make, pt_folder::specs::DestHeld::untold_can_write, pt_folder::specs::DestHeld::untold_may_move))]
fn check_folder_call(
    dest: &mut HostDest<'_, Counted<'_>>,
    step: CountedStep,
    at: &NamePath,
    to: &NamePath,
) -> Option<bool> {
    let (found, answer) = match step {
        CountedStep::Mkdir(_, answer) => (dest.mkdir(at), answer),
        CountedStep::Create(_, answer) => (dest.create(at), answer),
        CountedStep::Append(bytes, answer) => (dest.append(bytes.as_bytes()), answer),
        CountedStep::Finish(answer) => (dest.finish(), answer),
        CountedStep::Rename(_, _, answer) => (dest.rename(at, to), answer),
        CountedStep::Kind(_, answer) => return Some(dest.kind(at) == answer),
        _ => return None,
    };
    Some(found == answer)
}

/// The first of these steps of a rehearsal that goes otherwise.
pub fn find_wrong_in_rehearsal(
    counts: &Counts,
    alloc: Global,
    steps: &[CountedStep],
) -> Result<Option<usize>, TreeFault> {
    let mut dest = Rehearsal::new(alloc, HostDest::new(counts.system(), alloc, "f"));
    find_wrong_of_rehearsal(&mut dest, counts, alloc, steps)
}

fn find_wrong_of_rehearsal(
    dest: &mut Rehearsal<'_, Counted<'_>>,
    counts: &Counts,
    alloc: Global,
    steps: &[CountedStep],
) -> Result<Option<usize>, TreeFault> {
    let mut block = Block::new();
    for (i, step) in steps.iter().enumerate() {
        if !goes_in_rehearsal(dest, &mut block, counts, alloc, *step)? {
            return Ok(Some(i));
        }
    }
    Ok(None)
}

fn goes_in_rehearsal(
    dest: &mut Rehearsal<'_, Counted<'_>>,
    block: &mut Block,
    counts: &Counts,
    alloc: Global,
    step: CountedStep,
) -> Result<bool, TreeFault> {
    let (from, to) = step.paths();
    match check_rehearsal_call(dest, block, step, &path(alloc, from)?, &path(alloc, to)?) {
        Some(is_answer) => Ok(is_answer),
        None => Ok(is_found(counts, dest.failures(), dest.dest().last_failure(), step)),
    }
}

// Whether a call of the rehearsal is answered so; none of a step that is no call of it.
#[tactic(auto, using(pt_rehearsal::specs::Untold::untold_may_make, pt_rehearsal::specs::Untold::untold_can_write, pt_rehearsal::specs::Untold::untold_may_move, pt_rehearsal::specs::Untold::untold_can_peek))]
fn check_rehearsal_call(
    dest: &mut Rehearsal<'_, Counted<'_>>,
    block: &mut Block,
    step: CountedStep,
    at: &NamePath,
    to: &NamePath,
) -> Option<bool> {
    let (found, answer) = match step {
        CountedStep::Mkdir(_, answer) => (dest.mkdir(at), answer),
        CountedStep::Create(_, answer) => (dest.create(at), answer),
        CountedStep::Append(bytes, answer) => (dest.append(bytes.as_bytes()), answer),
        CountedStep::Finish(answer) => (dest.finish(), answer),
        CountedStep::Rename(_, _, answer) => (dest.rename(at, to), answer),
        CountedStep::Peek(_, answer) => (dest.peek(at, block), answer),
        CountedStep::Kind(_, answer) => return Some(dest.kind(at) == answer),
        CountedStep::Holds(len) => return Some(block.len() == len),
        _ => return None,
    };
    Some(found == answer)
}

// Whether this is found; what changes in the system is changed.
fn is_found(counts: &Counts, failures: u64, last: Option<&Failure>, step: CountedStep) -> bool {
    match step {
        CountedStep::Looks(number) => counts.looks.get() == number,
        CountedStep::Changes(number) => counts.changes.get() == number,
        CountedStep::Syncs(number) => counts.syncs.get() == number,
        CountedStep::Failures(number) => failures == number,
        CountedStep::FailedAt(at) => has_failed(last, at, false),
        CountedStep::TooLong(at) => has_failed(last, at, true),
        CountedStep::NoPath => last.is_none(),
        CountedStep::SyncsFail(fail) => {
            counts.no_sync.set(fail);
            true
        }
        _ => false,
    }
}

// Whether the last failure was at this path, and, where that is asked, because it is too long.
fn has_failed(last: Option<&Failure>, at: &str, long: bool) -> bool {
    match last {
        Some(failure) => failure.path() == at
            && (!long || matches!(failure.cause(), FailureReason::Long)),
        None => false,
    }
}
