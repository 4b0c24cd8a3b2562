//! One device fails at each of its calls, or the log at each of its bytes.
use crate::devices::cases::{Case, carry, make_dest_before, make_whole_dest, run};
use pt_memory::texts::{path, store};
use pt_memory::{MemDest, MemLog, MemSource};
use pt_move::Fault;
use pt_tree::NamePath;
use std::alloc::Global;

/// Which device fails.
#[derive(Clone, Copy)]
pub enum Device {
    Source,
    Dest,
    Log,
}

/// What a sweep finds: at how many places the device failed, or the first place where something
/// isn't well.
pub enum Found {
    Well(u64),
    Wrong(u64, &'static str),
}

/// A run of the case that this device stops at each place in turn, until it isn't stopped, each
/// time followed by a run that nothing stops.
pub fn sweep(alloc: Global, case: &Case, device: Device) -> Found {
    let mut setting = Setting {
        ends: Vec::new(alloc),
        source: MemSource::new(alloc),
        dest: MemDest::new(alloc),
        log: MemLog::new(alloc),
    };
    match add_ends(alloc, case, &mut setting.ends) {
        Some(()) => sweep_by(alloc, case, device, &mut setting),
        None => Found::Wrong(0, "the devices cannot be made"),
    }
}

// What a sweep goes over.
#[derive(Drop)]
struct Setting {
    // What runs of the case may leave, but for `staging`: first a run that nothing stops, then
    // those that are stopped, which leave the destination as before it, or with the first objects
    // whole and some of the tuple directories of the next one.
    ends: Vec<MemDest>,
    source: MemSource,
    dest: MemDest,
    log: MemLog,
}

fn sweep_by(alloc: Global, case: &Case, device: Device, setting: &mut Setting) -> Found {
    for at in 0..10_000 {
        match stop_run(alloc, case, device, at, setting) {
            None => return Found::Wrong(at, "the devices cannot be made"),
            Some(Stop::Wrong(why)) => return Found::Wrong(at, why),
            Some(Stop::Well) => {}
            Some(Stop::Past) => return Found::Well(at),
        }
    }
    Found::Wrong(10_000, "the run never ends")
}

fn add_ends(alloc: Global, case: &Case, ends: &mut Vec<MemDest>) -> Option<()> {
    add(make_whole_dest(alloc, case), ends)?;
    add(make_dest_before(alloc, case), ends)?;
    for (done, next) in case.places.split(' ').enumerate() {
        for tuples in 0..4 {
            add(make_whole_dest(alloc, case), ends)?;
            cut_back(alloc, case, (done, next, tuples), ends.last_mut()?)?;
        }
    }
    Some(())
}

fn add(end: Option<MemDest>, ends: &mut Vec<MemDest>) -> Option<()> {
    ends.push(end?).ok()
}

// Leaves so many of the objects, and so many tuple directories of the next one.
fn cut_back(
    alloc: Global,
    case: &Case,
    (done, next, tuples): (usize, &str, usize),
    dest: &mut MemDest,
) -> Option<()> {
    for place in case.places.split(' ').skip(done) {
        take_away(alloc, place.split('/').next()?, dest)?;
    }
    plant_tuples(alloc, next, tuples, dest)
}

// Plants the first tuple directories of a place.
fn plant_tuples(alloc: Global, place: &str, tuples: usize, dest: &mut MemDest) -> Option<()> {
    for (end, _) in place.match_indices('/').take(tuples) {
        plant(alloc, place.get(..end)?, dest)?;
    }
    Some(())
}

// Takes away what lies there in the storage root.
fn take_away(alloc: Global, rest: &str, dest: &mut MemDest) -> Option<()> {
    let at = in_root(alloc, rest)?;
    dest.take_away(&at).ok()
}

// Plants a directory there.
fn plant(alloc: Global, rest: &str, dest: &mut MemDest) -> Option<()> {
    let at = in_root(alloc, rest)?;
    dest.plant_dir(&at).ok()
}

fn in_root(alloc: Global, rest: &str) -> Option<NamePath> {
    let at = format!(in alloc; "ocfl/{rest}").ok()?;
    path(alloc, at.as_str()).ok()
}

// How a run ends that is to be stopped: as it should, otherwise, or without being stopped.
enum Stop {
    Well,
    Wrong(&'static str),
    Past,
}

// A run that this device stops at this place, and the one after it.
fn stop_run(
    alloc: Global,
    case: &Case,
    device: Device,
    at: u64,
    setting: &mut Setting,
) -> Option<Stop> {
    setting.source = store(alloc, case.entries).ok()?;
    setting.dest = make_dest_before(alloc, case)?;
    setting.log = MemLog::new(alloc);
    match device {
        Device::Source => setting.source.fuse(Some(at)),
        Device::Dest => setting.dest.fuse(Some(at)),
        Device::Log => setting.log.fuse(Some(at)),
    }
    let answer = run(
        alloc,
        &mut setting.source,
        &mut setting.dest,
        &mut setting.log,
    )?;
    setting.dest.fuse(None);
    clear_staging(alloc, &mut setting.dest)?;
    match answer {
        Ok(_) => Some(check_whole(setting)),
        Err(fault) => check_stop(alloc, case, fault == fault_of(device), setting),
    }
}

// How a run ended that nothing stopped: all has to be there.
fn check_whole(setting: &Setting) -> Stop {
    if is_whole(setting) {
        Stop::Past
    } else {
        Stop::Wrong("nothing fails, and something else is left")
    }
}

// Whether the destination holds what a run leaves that nothing stops.
fn is_whole(setting: &Setting) -> bool {
    setting
        .ends
        .first()
        .is_some_and(|all| all.same(&setting.dest))
}

// Takes `staging` away, where it stands.
fn clear_staging(alloc: Global, dest: &mut MemDest) -> Option<()> {
    let staging = path(alloc, "staging").ok()?;
    let _ = dest.take_away(&staging);
    Some(())
}

fn fault_of(device: Device) -> Fault {
    match device {
        Device::Source => Fault::Source,
        Device::Dest => Fault::Dest,
        Device::Log => Fault::Log,
    }
}

// How a run ended that was stopped, whether by the fault that it should be, and the one after it.
fn check_stop(alloc: Global, case: &Case, is_fault: bool, setting: &mut Setting) -> Option<Stop> {
    if !is_fault {
        return Some(Stop::Wrong("the fault is another"));
    }
    if !setting.ends.iter().any(|end| end.same(&setting.dest)) {
        return Some(Stop::Wrong("something else is left"));
    }
    let mut log = MemLog::new(alloc);
    let answer = carry(alloc, case.entries, &mut setting.dest, &mut log);
    Some(check_second_run(case, answer?.is_ok(), setting, &log))
}

// How the run after a stopped one ended, whether by no fault, and with this log.
fn check_second_run(case: &Case, is_done: bool, setting: &Setting, log: &MemLog) -> Stop {
    if !is_done {
        Stop::Wrong("the second run ends in a fault")
    } else if !is_whole(setting) {
        Stop::Wrong("the second run leaves something else")
    } else if !are_told_once(case, &setting.log, log) {
        Stop::Wrong("an object isn't told once")
    } else {
        Stop::Well
    }
}

// Whether two logs tell once of each object: the first as done, or the second as done, or as
// present.
fn are_told_once(case: &Case, first: &MemLog, second: &MemLog) -> bool {
    for place in case.places.split(' ') {
        let earlier = lines(first, "done", place);
        let later = (
            lines(second, "done", place),
            lines(second, "present", place),
        );
        if later != (0, 1) && (earlier, later) != (0, (1, 0)) {
            return false;
        }
    }
    true
}

// How many whole lines of a log tell of this place with this word.
fn lines(log: &MemLog, word: &str, place: &str) -> usize {
    let mut count = 0usize;
    for line in str::from_utf8(log.bytes()).unwrap_or("").split('\n') {
        if tells(line, word, place) {
            count = count.wrapping_add(1);
        }
    }
    count
}

// Whether a line begins with this word and ends with this place.
fn tells(line: &str, word: &str, place: &str) -> bool {
    let Some(head) = line.strip_prefix("{\"as\":\"") else {
        return false;
    };
    let Some(tail) = line.strip_suffix("\"}") else {
        return false;
    };
    match (head.strip_prefix(word), tail.strip_suffix(place)) {
        (Some(head), Some(tail)) => head.starts_with("\",") && tail.ends_with("\"to\":\""),
        _ => false,
    }
}
