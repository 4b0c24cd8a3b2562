//! Audits of a root that has more than the store: whole, and with all calls failing from each one
//! on.
use crate::system::case::Case;
use crate::system::expected::Expected;
use crate::system::machine::{AuditResult, audit};
use crate::system::rows::{Found, Stop};
use pt_memory::MemSource;
use pt_memory::texts::add;
use pt_memory_system::Faults;
use std::alloc::AllocGlobal;

/// Audits that are stopped after no call, after one, after two and so on, until one isn't stopped.
pub fn check_audits(rt: &HostRuntime, case: &Case, quick: bool) -> Option<Found> {
    let told = case.tells_audit(rt.alloc(), quick)?;
    let mut unlisted = 0u32;
    for passing in 0..10_000u64 {
        let (status, stop) = stop_audit(rt, case, &told, passing, quick)?;
        match stop {
            Stop::Well => unlisted = unlisted.wrapping_add(u32::from(status == 1)),
            Stop::Otherwise(why) => return Some(Found::Otherwise(why)),
            Stop::Past => return Some(if unlisted > 0 {
                Found::Well
            } else {
                Found::Otherwise("no folder of the root is told as one that can't be listed")
            }),
        }
    }
    Some(Found::Otherwise("the audit never ends"))
}

// The status of an audit of which so many calls pass, and what of it.
fn stop_audit(
    rt: &HostRuntime,
    case: &Case,
    told: &Expected,
    passing: u64,
    quick: bool,
) -> Option<(u8, Stop)> {
    let alloc = rt.alloc();
    let mut store = MemSource::new(alloc);
    add(alloc, &mut store, case.store).ok()?;
    let faults = Faults::new();
    faults.fail_after(Some(passing));
    let audited = audit(rt, &faults, store, case.root_with_more(alloc)?, quick)?;
    let stop = if faults.calls() > passing {
        told.check_stopped(&audited)?
    } else if audited.status != told.status {
        Stop::Otherwise("no call fails, and the status is another")
    } else if audited.log.as_slice() != told.log.as_bytes() {
        Stop::Otherwise("no call fails, and the log is another")
    } else {
        Stop::Past
    };
    Some((audited.status, stop))
}

// How the line of a folder that couldn't be listed begins.
const UNLISTED: &str = "{\"as\":\"stray\",\"reason\":\"";

// How the line of anything stray begins.
const STRAY: &str = "{\"as\":\"stray\"";

// How the end line begins.
const END: &str = "{\"absent\"";

// What stands there in front of the number of stray lines.
const COUNT: &str = "\"stray\":";

impl Expected {
    // An audit that is stopped tells a front of the lines, and never the end line. Where it is the
    // listing of a folder of the root that fails first, that is told instead, and so is each folder
    // that is still met, as no call passes any more; and the audit ends.
    fn check_stopped(&self, audited: &AuditResult) -> Option<Stop> {
        let (lines, _) = self.log.as_str().rsplit_once(END)?;
        let log = str::from_utf8(audited.log.as_slice()).ok()?;
        let Some((front, _)) = log.split_once(UNLISTED) else {
            return Some(check_front(lines, log, audited.status, 3));
        };
        let rest = log.strip_prefix(front)?;
        Some(if ends_with_unlisted(rest, front) {
            check_front(lines, front, audited.status, 1)
        } else {
            Stop::Otherwise("a listing fails and the log goes on otherwise")
        })
    }
}

// Whether a log is a front of some lines, and the status this.
fn check_front(lines: &str, log: &str, status: u8, wanted: u8) -> Stop {
    if status != wanted {
        Stop::Otherwise("a call fails and the status is another")
    } else if !lines.starts_with(log) {
        Stop::Otherwise("a call fails and the log is no front of the lines")
    } else {
        Stop::Well
    }
}

// Whether these are lines of folders that couldn't be listed, and an end line that counts them as
// stray with those of the front.
fn ends_with_unlisted(rest: &str, front: &str) -> bool {
    let mut stray = strays_in(front);
    let mut rest = rest;
    for _ in 0..10_000u32 {
        let Some(line) = rest.strip_prefix(UNLISTED) else {
            return rest.starts_with(END) && counted(rest) == Some(stray);
        };
        let Some((_, behind)) = line.split_once('\n') else {
            return false;
        };
        stray = stray.wrapping_add(1);
        rest = behind;
    }
    false
}

// How many stray lines there are.
fn strays_in(lines: &str) -> u32 {
    let (mut rest, mut stray) = (lines, 0u32);
    for _ in 0..10_000u32 {
        let Some((_, behind)) = rest.split_once(STRAY) else {
            return stray;
        };
        stray = stray.wrapping_add(1);
        rest = behind;
    }
    stray
}

// How many the end line counts.
fn counted(end: &str) -> Option<u32> {
    let (_, number) = end.split_once(COUNT)?;
    number.strip_suffix("}\n")?.parse().ok()
}
