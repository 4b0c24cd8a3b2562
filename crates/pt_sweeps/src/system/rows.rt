//! The rows: what runs over a case leave, held against what they should.
use crate::system::audits::check_audits;
use crate::system::case::Case;
use crate::system::expected::Expected;
use crate::system::machine::{RunResult, carry};
use pt_memory::MemDest;
use pt_memory::texts::{add, path};
use pt_memory_system::Faults;
use std::alloc::{AllocGlobal, Global};

/// What a row finds.
#[derive(Clone, Copy)]
pub enum Found {
    Well,
    /// What differs.
    Otherwise(&'static str),
    /// The devices can't be made.
    Unmade,
}

/// A row.
#[derive(Clone, Copy)]
pub enum Row {
    /// The store is carried into an empty root.
    Carry,
    /// A rehearsal before the run.
    RehearseBefore,
    /// A rehearsal over the root that holds the objects.
    RehearseAfter,
    /// A run stopped at each call in turn, each time followed by one that nothing stops.
    Stop,
    /// An audit of both ways, of a root that has more than the store: stopped at each call in turn,
    /// and whole.
    Audit,
    /// The same by lengths.
    QuickAudit,
}

/// Tries a row over a case.
pub fn try_row(rt: &HostRuntime, case: &Case, row: Row) -> Found {
    let mut ran = RunResult::new(rt.alloc());
    try_row_on(rt, case, row, &mut ran).unwrap_or(Found::Unmade)
}

fn try_row_on(rt: &HostRuntime, case: &Case, row: Row, ran: &mut RunResult) -> Option<Found> {
    add(rt.alloc(), &mut ran.store, case.store).ok()?;
    match row {
        Row::Carry => check_carry(rt, case, ran),
        Row::RehearseBefore => check_rehearsal_before(rt, case, ran),
        Row::RehearseAfter => check_rehearsal_after(rt, case, ran),
        Row::Stop => check_each_stop(rt, case, ran),
        Row::Audit => check_audits(rt, case, false),
        Row::QuickAudit => check_audits(rt, case, true),
    }
}

fn check_carry(rt: &HostRuntime, case: &Case, ran: &mut RunResult) -> Option<Found> {
    let told = case.tells(rt.alloc(), &ran.root)?;
    carry(rt, &Faults::new(), ran, false)?;
    Some(find_difference(ran, &told, &case.root(rt.alloc())?))
}

fn check_rehearsal_before(rt: &HostRuntime, case: &Case, ran: &mut RunResult) -> Option<Found> {
    let told = case.tells(rt.alloc(), &ran.root)?;
    carry(rt, &Faults::new(), ran, true)?;
    match find_difference(ran, &told, &MemDest::new(rt.alloc())) {
        Found::Well => check_carry(rt, case, ran),
        found => Some(found),
    }
}

fn check_rehearsal_after(rt: &HostRuntime, case: &Case, ran: &mut RunResult) -> Option<Found> {
    carry(rt, &Faults::new(), ran, false)?;
    let told = case.tells(rt.alloc(), &ran.root)?;
    carry(rt, &Faults::new(), ran, true)?;
    Some(find_difference(ran, &told, &case.root(rt.alloc())?))
}

// How a run differs from one that tells this and leaves this root.
fn find_difference(ran: &RunResult, told: &Expected, root: &MemDest) -> Found {
    if ran.status != told.status {
        Found::Otherwise("the status is another")
    } else if ran.log.as_slice() != told.log.as_bytes() {
        Found::Otherwise("the log is another")
    } else if !ran.root.same(root) {
        Found::Otherwise("the root is another")
    } else {
        Found::Well
    }
}

// Runs that are stopped after no call, after one, after two and so on, until one isn't stopped.
fn check_each_stop(rt: &HostRuntime, case: &Case, ran: &mut RunResult) -> Option<Found> {
    let whole = case.root(rt.alloc())?;
    for passing in 0..10_000u64 {
        match stop_after(rt, case, &whole, passing)? {
            Stop::Well => {}
            Stop::Otherwise(why) => return Some(Found::Otherwise(why)),
            Stop::Past => return Some(Found::Well),
        }
    }
    Some(Found::Otherwise("the run never ends"))
}

/// How a run ends that is to be stopped: as it should, otherwise, or without being stopped.
pub enum Stop {
    Well,
    Otherwise(&'static str),
    Past,
}

fn stop_after(rt: &HostRuntime, case: &Case, whole: &MemDest, passing: u64) -> Option<Stop> {
    let mut ran = RunResult::new(rt.alloc());
    stop_once(rt, case, whole, passing, &mut ran)
}

// A run of which so many calls pass, and the one after it.
fn stop_once(
    rt: &HostRuntime,
    case: &Case,
    whole: &MemDest,
    passing: u64,
    ran: &mut RunResult,
) -> Option<Stop> {
    add(rt.alloc(), &mut ran.store, case.store).ok()?;
    let faults = Faults::new();
    faults.fail_after(Some(passing));
    let told = case.tells(rt.alloc(), &ran.root)?;
    carry(rt, &faults, ran, false)?;
    if faults.calls() <= passing {
        return Some(match find_difference(ran, &told, whole) {
            Found::Well => Stop::Past,
            _ => Stop::Otherwise("no call fails, and the run is another"),
        });
    }
    if ran.status != 3 {
        return Some(Stop::Otherwise("a call fails and the status is another"));
    }
    carry_again(rt, case, whole, ran)
}

// The run after a stopped one, of which `staging` is taken away.
fn carry_again(
    rt: &HostRuntime,
    case: &Case,
    whole: &MemDest,
    ran: &mut RunResult,
) -> Option<Stop> {
    let _ = ran.root.take_away(&path(rt.alloc(), "staging").ok()?);
    let told = case.tells(rt.alloc(), &ran.root)?;
    carry(rt, &Faults::new(), ran, false)?;
    Some(match find_difference(ran, &told, whole) {
        Found::Well => Stop::Well,
        Found::Otherwise(why) => Stop::Otherwise(why),
        Found::Unmade => Stop::Otherwise("the devices can't be made"),
    })
}
