//! The jobs of runs, steps of a run, and what is to come of one.
#![tactic(auto)]

ghost use Rattle.pt_move.specs.Running.{HasBegun};
ghost use Rattle.pt_state.specs.Outside.{states_of};

use pt_memory::texts::store;
use pt_memory::{MemDest, MemLog, MemSource};
use pt_move::{Fault, Job, Mover, Report, Turn, migrate};
use pt_name::{Layout, LayoutFault, Share, ShareFault};
use pt_object::{Algorithm, Meta, MetaFault};
use pt_tree::{Dest, Log, Source};
use pt_walk::{Limits, LimitsFault};
use std::alloc::Global;

/// What a job has that isn't as usual: three tuples of three digits, SHA-512, the greatest limits,
/// the whole store.
#[derive(Clone, Copy)]
pub enum Settings {
    Usual,
    Gather,
    Sha256,
    /// Tuples of so many digits, and so many of them.
    Tuples(u32, u32),
    /// The limit of turns.
    Turns(u64),
    /// The limits of files, of the bytes of a path, of depth and of the bytes of a file.
    Limits([u64; 4]),
    /// The share of this number, of so many, with the limit of depth 3.
    Share(u32, u32),
    /// The same, divided by folders so deep.
    Folders(u32, u32, u32),
}

pub fn make_job(alloc: Global, settings: Settings) -> Option<Job> {
    let layout = layout(settings).ok()?;
    let limits = limits(settings).ok()?;
    let share = share(settings).ok()?;
    let meta = meta(alloc).ok()?;
    Some(Job {
        meta,
        layout,
        algorithm: algorithm(settings),
        limits,
        gather: matches!(settings, Settings::Gather),
        share,
    })
}

fn meta(alloc: Global) -> Result<Meta, MetaFault> {
    Meta::of(
        alloc,
        "2024-05-01T12:00:00Z",
        "Ada",
        None,
        "Migrated from Pairtree",
    )
}

fn layout(settings: Settings) -> Result<Layout, LayoutFault> {
    match settings {
        Settings::Tuples(size, count) => Layout::of(size, count),
        _ => Ok(Layout::default_form()),
    }
}

fn algorithm(settings: Settings) -> Algorithm {
    match settings {
        Settings::Sha256 => Algorithm::Sha256,
        _ => Algorithm::Sha512,
    }
}

fn limits(settings: Settings) -> Result<Limits, LimitsFault> {
    let (most, turns) = match settings {
        Settings::Limits(most) => (most, 1 << 40),
        Settings::Turns(turns) => ([1_000_000, 4_000, 600, 1 << 43], turns),
        Settings::Share(..) | Settings::Folders(..) => ([1_000_000, 4_000, 3, 1 << 43], 1 << 40),
        _ => ([1_000_000, 4_000, 600, 1 << 43], 1 << 40),
    };
    let [files, path_bytes, depth, file_bytes] = most;
    Limits::of(files, path_bytes, depth, file_bytes, turns)
}

fn share(settings: Settings) -> Result<Share, ShareFault> {
    match settings {
        Settings::Share(index, count) => Share::of(index, count),
        Settings::Folders(index, count, depth) => Ok(Share::of(index, count)?.by_folders(depth)),
        _ => Ok(Share::whole()),
    }
}

// Makes so many steps, and stops at the first that doesn't answer `More`. Gives how many answered
// it, and the most records held after one of those.
pub fn make_steps<S: Source, D: Dest, L: Log>(
    mover: &mut Mover,
    source: &mut S,
    dest: &mut D,
    log: &mut L,
    steps: u64,
) -> (u64, u128)
    requires { HasBegun (states_of S.Source D.Dest L.Log source.old dest.old log.old) mover.old }
    ensures { HasBegun (states_of S.Source D.Dest L.Log source.new dest.new log.new) mover.new }
{
    let mut most = 0;
    'turns: for made in 0..steps {
        let Ok(Turn::More) = mover.step(source, dest, log) else {
            return (made, most);
        };
        most = mover.records().max(most);
    }
    (steps, most)
}

/// What a run answers, if there is such a job.
pub fn run<S: Source>(
    alloc: Global,
    source: &mut S,
    dest: &mut MemDest,
    log: &mut MemLog,
    settings: Settings,
) -> Option<Result<Report, Fault>> {
    Some(migrate(alloc, source, dest, log, make_job(alloc, settings)?))
}

/// What is to come of a run over such a source.
pub trait Goes<S: Source> {
    /// Whether that comes of it, where the destination and the log were empty.
    fn goes(&self, alloc: Global, source: &mut S, dest: &mut MemDest, log: &mut MemLog) -> bool;
}

/// Whether that comes of a run over this source.
pub fn goes_over<S: Source + Drop, R: Goes<S>>(alloc: Global, source: S, row: &R) -> bool {
    let mut source = source;
    let mut dest = MemDest::new(alloc);
    let mut log = MemLog::new(alloc);
    row.goes(alloc, &mut source, &mut dest, &mut log)
}

/// Whether that comes of a run over the store of these entries.
pub fn goes_over_store<R: Goes<MemSource>>(alloc: Global, entries: &str, row: &R) -> bool {
    match store(alloc, entries) {
        Ok(source) => goes_over(alloc, source, row),
        Err(_) => false,
    }
}
