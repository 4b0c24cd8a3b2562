//! Tests as data: what is done with a store and a destination, and what comes of it.
#![tactic(auto)]

use crate::expected_roots::{Base, Files, is_tree};
use crate::jobs::{Settings, run};
use pt_memory::texts::{add, path, plant, store};
use pt_memory::{MemDest, MemLog, MemSource};
use pt_move::{Fault, Report};
use std::alloc::Global;
use std::process::Abort;

/// A step: what is done, or what is found then.
#[derive(Clone, Copy)]
pub enum Step {
    /// The store is this one.
    Store(&'static str),
    /// An entry is planted in the store.
    Plant(&'static str),
    /// Files are added to the destination.
    Add(Files),
    /// What stands at a path of the destination is taken away.
    Take(&'static str),
    /// The source, or the destination, fails after so many calls.
    SourceFails(u64),
    DestFails(u64),
    /// The destination fails no more.
    DestIsWell,
    /// A run ends so and writes these lines.
    Run(Settings, Ends, &'static str),
    /// A run ends well.
    Carry(Settings),
    /// The destination holds this, and nothing else.
    Is(Base, Files),
    /// It holds what a run into an empty one leaves.
    IsUnbroken,
    /// It holds a file at this path, or one that ends so, or one of so many letters `a`.
    Has(&'static str),
    EndsWith(&'static str, &'static str),
    Letters(&'static str, usize),
}

/// How a run ends: well, well with this report, or in a fault.
#[derive(Clone, Copy)]
pub enum Ends {
    Well,
    With(Report),
    In(Fault),
}

/// Each of these steps goes so, with an empty store and an empty destination before them.
pub fn all_go(rt: &impl Abort, alloc: Global, what: &str, steps: &[Step]) {
    let wrong = find_wrong_step(alloc, steps);
    assert!(rt; wrong.is_none(), "{what}: step {wrong:?}");
}

// The first of these steps, counted from 0, that goes otherwise.
fn find_wrong_step(alloc: Global, steps: &[Step]) -> Option<usize> {
    let mut source = MemSource::new(alloc);
    let mut dest = MemDest::new(alloc);
    find_wrong_step_over(alloc, &mut source, &mut dest, steps)
}

fn find_wrong_step_over(
    alloc: Global,
    source: &mut MemSource,
    dest: &mut MemDest,
    steps: &[Step],
) -> Option<usize> {
    for (i, step) in steps.iter().enumerate() {
        if !goes(alloc, source, dest, step) {
            return Some(i);
        }
    }
    None
}

fn goes(alloc: Global, source: &mut MemSource, dest: &mut MemDest, step: &Step) -> bool {
    match step {
        Step::Store(entries) => stores(alloc, source, entries),
        Step::Plant(entry) => plant(alloc, source, entry).is_ok(),
        Step::SourceFails(calls) => {
            source.fuse(Some(*calls));
            true
        }
        Step::Run(settings, ends, lines) => is_run(alloc, source, dest, *settings, (*ends, lines)),
        Step::Carry(settings) => carries(alloc, source, dest, *settings),
        Step::IsUnbroken => is_unbroken(alloc, source, dest),
        _ => goes_in_dest(alloc, dest, step),
    }
}

fn goes_in_dest(alloc: Global, dest: &mut MemDest, step: &Step) -> bool {
    match step {
        Step::Add(files) => add(alloc, dest, files).is_ok(),
        Step::Take(at) => takes(alloc, dest, at),
        Step::DestFails(calls) => {
            dest.fuse(Some(*calls));
            true
        }
        Step::DestIsWell => {
            dest.fuse(None);
            true
        }
        Step::Is(base, files) => is_tree(alloc, dest, *base, files),
        Step::Has(at) | Step::EndsWith(at, _) | Step::Letters(at, _) => has(alloc, dest, at, step),
        _ => false,
    }
}

fn stores(alloc: Global, source: &mut MemSource, entries: &str) -> bool {
    match store(alloc, entries) {
        Ok(store) => {
            *source = store;
            true
        }
        Err(_) => false,
    }
}

fn takes(alloc: Global, dest: &mut MemDest, at: &str) -> bool {
    match path(alloc, at) {
        Ok(at) => dest.take_away(&at).is_ok(),
        Err(_) => false,
    }
}

// Whether a run ends so and writes these lines.
fn is_run(
    alloc: Global,
    source: &mut MemSource,
    dest: &mut MemDest,
    settings: Settings,
    wanted: (Ends, &str),
) -> bool {
    let mut log = MemLog::new(alloc);
    let answer = run(alloc, source, dest, &mut log, settings);
    let (ends, lines) = wanted;
    is_end(answer, ends) && log.bytes() == lines.as_bytes()
}

// Whether a run ends well.
fn carries(alloc: Global, source: &mut MemSource, dest: &mut MemDest, settings: Settings) -> bool {
    is_end(
        run(alloc, source, dest, &mut MemLog::new(alloc), settings),
        Ends::Well,
    )
}

fn is_end(answer: Option<Result<Report, Fault>>, ends: Ends) -> bool {
    match (answer, ends) {
        (Some(Ok(_)), Ends::Well) => true,
        (Some(Ok(found)), Ends::With(report)) => found == report,
        (Some(Err(found)), Ends::In(fault)) => found == fault,
        _ => false,
    }
}

fn is_unbroken(alloc: Global, source: &mut MemSource, dest: &MemDest) -> bool {
    let mut whole = MemDest::new(alloc);
    carries(alloc, source, &mut whole, Settings::Usual) && dest.same(&whole)
}

// Whether a file is at a path, and holds what the step says.
fn has(alloc: Global, dest: &MemDest, at: &str, step: &Step) -> bool {
    match path(alloc, at) {
        Ok(at) => is_held(dest.file(&at), step),
        Err(_) => false,
    }
}

fn is_held(bytes: Option<&[u8]>, step: &Step) -> bool {
    match (bytes, step) {
        (Some(_), Step::Has(_)) => true,
        (Some(bytes), Step::EndsWith(_, ending)) => bytes.ends_with(ending.as_bytes()),
        (Some(bytes), Step::Letters(_, count)) => are_letters(bytes, *count),
        _ => false,
    }
}

fn are_letters(bytes: &[u8], count: usize) -> bool {
    for byte in bytes {
        if *byte != b'a' {
            return false;
        }
    }
    bytes.len() == count
}
