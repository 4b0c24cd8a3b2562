//! Calls of a destination and of a source as data, for tests, and what is found then.
use crate::failing_system::{SystemState, byte_at};
use pt_folder::{HostDest, HostSource};
use pt_machine::HostMachine;
use pt_memory::texts::path;
use pt_tree::{Block, Dest, Kind, Listing, Name, NamePath, Source, TreeFault};
use std::alloc::Global;
use std::rt::Files;
use std::test::Fail;

/// A call of a destination, what is found then, or what changes in the system.
#[derive(Clone, Copy)]
pub enum DestStep {
    Kind(&'static str),
    Peek(&'static str),
    Mkdir(&'static str),
    Create(&'static str),
    /// Appends so many bytes of a file.
    Append(usize),
    Finish,
    Rename(&'static str, &'static str),
    /// The block holds the first so many bytes of a file.
    Holds(usize),
    /// The call of the system that fails, from the next one on.
    CallFails(u64),
    /// So many calls of the system were made.
    Calls(u64),
    /// So many bytes were written.
    Written(u64),
}

/// What a step answers: of `Kind` what stands there, and of the others nothing.
pub type Answer = Result<Option<Kind>, TreeFault>;

pub const DONE: Answer = Ok(None);

pub const FAILS: Answer = Err(TreeFault::Device);

/// A step and what it answers.
pub type Row = (DestStep, Answer);

/// The first step that goes otherwise, if any, and how many failures there are.
pub type Outcome = (Option<usize>, u64);

/// The first row of a destination over a folder that goes otherwise, or leaves the count of
/// failures at another number than that of the steps that failed for the device.
pub fn try_dest<R: Files>(
    system: &R,
    state: &SystemState,
    alloc: Global,
    folder: &str,
    rows: &[Row],
) -> Result<Outcome, Fail> {
    let mut dest = HostDest::new(HostMachine::new(system), alloc, folder);
    try_dest_steps(&mut dest, state, alloc, rows)
}

fn try_dest_steps<R: Files>(
    dest: &mut HostDest<'_, HostMachine<'_, R>>,
    state: &SystemState,
    alloc: Global,
    rows: &[Row],
) -> Result<Outcome, Fail> {
    let mut block = Block::new();
    let mut failures = 0u64;
    for (i, (step, answer)) in rows.iter().enumerate() {
        let found = take_step(dest, &mut block, state, alloc, *step)?;
        failures = failures.saturating_add((*answer == FAILS) as u64);
        if found != *answer || dest.failures() != failures {
            return Ok((Some(i), dest.failures()));
        }
    }
    Ok((None, dest.failures()))
}

// Takes a step; what isn't found is answered as a want of memory.
fn take_step<R: Files>(
    dest: &mut HostDest<'_, HostMachine<'_, R>>,
    block: &mut Block,
    state: &SystemState,
    alloc: Global,
    step: DestStep,
) -> Result<Answer, Fail> {
    let is_found = match step {
        DestStep::Append(len) => return append(dest, alloc, len),
        DestStep::Holds(len) => is_part(block.as_slice(), 0, len),
        DestStep::CallFails(_) | DestStep::Calls(_) | DestStep::Written(_) => state.is_so_for_dest(
            step,
        ),
        _ => return make_call(dest, block, alloc, step),
    };
    Ok(if is_found {
        DONE
    } else {
        Err(TreeFault::Memory)
    })
}

#[tactic(auto, using(pt_folder::specs::DestHeld::untold_can_write))]
fn append<R: Files>(
    dest: &mut HostDest<'_, HostMachine<'_, R>>,
    alloc: Global,
    len: usize,
) -> Result<Answer, Fail> {
    let bytes = piece(alloc, len)?;
    match dest.append(&bytes) {
        Ok(()) => Ok(DONE),
        Err(fault) => Ok(Err(fault)),
    }
}

fn make_call<R: Files>(
    dest: &mut HostDest<'_, HostMachine<'_, R>>,
    block: &mut Block,
    alloc: Global,
    step: DestStep,
) -> Result<Answer, Fail> {
    let (from, to) = match step {
        DestStep::Kind(at) | DestStep::Peek(at) | DestStep::Mkdir(at) | DestStep::Create(at) => (
            at, "",
        ),
        DestStep::Rename(from, to) => (from, to),
        _ => ("", ""),
    };
    let from = path(alloc, from)?;
    let to = path(alloc, to)?;
    Ok(call_dest(dest, block, step, &from, &to))
}

#[tactic(auto, using(pt_folder::specs::DestHeld::untold_can_peek, pt_folder::specs::DestHeld::untold_may_make, pt_folder::specs::DestHeld::untold_can_write, pt_folder::specs::DestHeld::untold_may_move))]
fn call_dest<R: Files>(
    dest: &mut HostDest<'_, HostMachine<'_, R>>,
    block: &mut Block,
    step: DestStep,
    at: &NamePath,
    to: &NamePath,
) -> Answer {
    match step {
        DestStep::Kind(_) => return dest.kind(at),
        DestStep::Peek(_) => dest.peek(at, block)?,
        DestStep::Mkdir(_) => dest.mkdir(at)?,
        DestStep::Create(_) => dest.create(at)?,
        DestStep::Rename(..) => dest.rename(at, to)?,
        _ => dest.finish()?,
    }
    DONE
}

/// A call of a source, what is found then, or what changes in the system.
#[derive(Clone, Copy)]
pub enum SourceStep {
    Open(&'static str, Result<(), TreeFault>),
    /// The names and kinds in a directory.
    List(&'static str, Result<&'static [(&'static str, Kind)], TreeFault>),
    /// What stands there.
    Kind(&'static str, Answer),
    /// The next block is so many bytes of the file, from a place on.
    Next(u64, usize),
    /// No block is given, for this fault.
    NoBlock(TreeFault),
    /// The call of the system that fails, from the next one on.
    CallFails(u64),
    /// Whether going to a place in a file fails.
    SeekFails(bool),
    /// So many calls of the system were made.
    Calls(u64),
}

/// The first step of a source over a folder that goes otherwise, and how many failures there are
/// then.
pub fn try_source<R: Files>(
    system: &R,
    state: &SystemState,
    alloc: Global,
    folder: &str,
    steps: &[SourceStep],
) -> Result<Outcome, Fail> {
    let mut source = HostSource::new(HostMachine::new(system), alloc, folder);
    try_source_steps(&mut source, state, alloc, steps)
}

fn try_source_steps<R: Files>(
    source: &mut HostSource<'_, HostMachine<'_, R>>,
    state: &SystemState,
    alloc: Global,
    steps: &[SourceStep],
) -> Result<Outcome, Fail> {
    let mut block = Block::new();
    for (i, step) in steps.iter().enumerate() {
        if !goes(source, &mut block, state, alloc, *step)? {
            return Ok((Some(i), source.failures()));
        }
    }
    Ok((None, source.failures()))
}

#[tactic(auto, unfolding(pt_tree::specs::Source::CanRead, pt_tree::specs::Source::CanList, pt_tree::specs::Source::CanLook, pt_tree::specs::Source::CanOpen))]
fn goes<R: Files>(
    source: &mut HostSource<'_, HostMachine<'_, R>>,
    block: &mut Block,
    state: &SystemState,
    alloc: Global,
    step: SourceStep,
) -> Result<bool, Fail> {
    Ok(match step {
        SourceStep::Open(at, answer) => source.open(&path(alloc, at)?) == answer,
        SourceStep::Kind(at, answer) => source.kind(&path(alloc, at)?) == answer,
        SourceStep::List(at, answer) => is_listed(&source.list(&path(alloc, at)?), answer),
        SourceStep::Next(start, len) => source.next(block).is_ok()
            && is_part(block.as_slice(), start, len),
        SourceStep::NoBlock(fault) => source.next(block) == Err(fault) && block.is_empty(),
        _ => state.is_so_for_source(step),
    })
}

fn is_listed(
    listed: &Result<Listing, TreeFault>,
    answer: Result<&[(&str, Kind)], TreeFault>,
) -> bool {
    match (listed, answer) {
        (Ok(listing), Ok(entries)) => has_entries(listing, entries),
        (Err(fault), Err(wanted)) => *fault == wanted,
        _ => false,
    }
}

fn has_entries(listing: &Listing, entries: &[(&str, Kind)]) -> bool {
    let mut all = listing.len() == entries.len();
    for (i, (name, kind)) in entries.iter().enumerate() {
        all = all
            && listing
                .get(i)
                .is_some_and(|found| is_entry(found, name, *kind));
    }
    all
}

fn is_entry(found: (&Name, Kind), name: &str, kind: Kind) -> bool {
    found.0.bytes() == name.as_bytes() && found.1 == kind
}

/// The first so many bytes of a file.
pub fn piece(alloc: Global, len: usize) -> Result<Vec<u8>, Fail> {
    let mut bytes = Vec::with_capacity(alloc, len)?;
    for i in 0..len {
        bytes.push(byte_at(i as u64))?;
    }
    Ok(bytes)
}

/// Whether these are so many bytes of a file, from a place on.
pub fn is_part(bytes: &[u8], start: u64, len: usize) -> bool {
    let mut place = start;
    let mut all = bytes.len() == len;
    for byte in bytes {
        all = all && *byte == byte_at(place);
        place = place.wrapping_add(1);
    }
    all
}
