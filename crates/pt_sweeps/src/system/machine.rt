//! A machine whose two folders are in memory, and runs and audits by the program's own calls on it.
ghost use Rattle.std.specs.Prelude.{⊤};

use pt_guard::{Claim, FileId, LockAttempt, Places};
use pt_host::{
    AllowedLines, AuditOptions, Feedback, Host, HostIo, Progress, RunOptions, Syncs, audit_guarded,
    run_guarded,
};
use pt_machine::HostMachine;
use pt_memory::{MemDest, MemSource};
use pt_memory_system::{Faults, MemorySystem};
use pt_move::Job;
use pt_name::{Layout, Share};
use pt_object::{Algorithm, Meta};
use pt_tree::Ignored;
use pt_walk::Limits;
use std::alloc::{AllocGlobal, Global};
use std::io::ErrorKind;
use std::path::PathBuf;
use std::{io, mem};

// What a machine lends: the system of the store, that of the root, and what takes the log.
type Lent<'a> = HostIo<MemorySystem<'a>, MemorySystem<'a>, Vec<u8>>;

// A machine of two systems in memory, which knows where no other folder is.
#[derive(Drop)]
struct Machine<'a> {
    alloc: Global,
    devices: Lent<'a>,
}

// The file that no output goes to.
#[derive(Drop)]
struct NoFile;

impl Syncs for NoFile {
    ghost syncs = { λ _ _ _. ⊤ };

    fn sync(&mut self) -> io::Result<()> {
        Ok(())
    }
}

impl<'a> Places for Machine<'a> {
    type Lock = u8;

    ghost does = { λ _ _ _. ⊤ };

    fn resolve(&mut self, _: Global, _: &str) -> io::Result<PathBuf> {
        Err(io::Error::from(ErrorKind::NotFound))
    }

    fn identify(&mut self, _: &str) -> io::Result<FileId> {
        Err(io::Error::from(ErrorKind::NotFound))
    }

    fn look(&mut self, _: &str) -> io::Result<()> {
        Err(io::Error::from(ErrorKind::NotFound))
    }

    fn hold(&mut self, _: &str, _: Claim) -> LockAttempt<u8> {
        LockAttempt::Held(7)
    }

    fn release(&mut self, _: u8) {}
}

impl<'a> Host for Machine<'a> {
    type Store = MemorySystem<'a>;

    type Folder = MemorySystem<'a>;

    type Output = Vec<u8>;

    type File = NoFile;

    ghost does = { λ _ _ _. ⊤ };

    fn output_file(&mut self) -> io::Result<Option<NoFile>> {
        Ok(None)
    }

    fn lend(&mut self) -> Lent<'a> {
        HostIo {
            store: self.devices.store.take(),
            folder: self.devices.folder.take(),
            output: mem::replace(&mut self.devices.output, Vec::new(self.alloc)),
        }
    }

    fn take_back(&mut self, devices: Lent<'a>)
        ensures { ⊤ }
    {
        self.devices = devices;
    }

    fn create_new(&mut self, _: &str, _: &str) -> io::Result<()> {
        Err(io::Error::from(ErrorKind::PermissionDenied))
    }

    fn move_file(&mut self, _: &str, _: &str) -> io::Result<()> {
        Err(io::Error::from(ErrorKind::PermissionDenied))
    }

    fn tell(&mut self, _: &str) {}
}

/// What runs leave.
#[derive(Drop)]
pub struct RunResult {
    pub status: u8,
    pub log: Vec<u8>,
    pub store: MemSource,
    pub root: MemDest,
}

impl RunResult {
    /// An empty store and an empty root, before any run.
    pub fn new(alloc: Global) -> RunResult {
        RunResult {
            status: 0,
            log: Vec::new(alloc),
            store: MemSource::new(alloc),
            root: MemDest::new(alloc),
        }
    }
}

/// Carries the store into the root, or rehearses that. None where the machine can't be made.
pub fn carry(rt: &HostRuntime, faults: &Faults, ran: &mut RunResult, rehearse: bool) -> Option<()> {
    let alloc = rt.alloc();
    let store = mem::replace(&mut ran.store, MemSource::new(alloc));
    let root = mem::replace(&mut ran.root, MemDest::new(alloc));
    let mut machine = set_up(alloc, faults, store, root)?;
    let status = status_of(rt, &mut machine, rehearse);
    give_back(machine, ran);
    ran.status = status?;
    Some(())
}

// The status of a run on a machine.
fn status_of(rt: &HostRuntime, machine: &mut Machine<'_>, rehearse: bool) -> Option<u8> {
    let options = run_options(rt.alloc(), rehearse)?;
    Some(run_guarded(&HostMachine::new(rt), machine, options, "store", "root"))
}

/// What an audit answers.
#[derive(Drop)]
pub struct AuditResult {
    pub status: u8,
    pub log: Vec<u8>,
}

/// Holds a root against a store, both ways, by bytes or by lengths. None where the machine can't be
/// made.
pub fn audit(
    rt: &HostRuntime,
    faults: &Faults,
    store: MemSource,
    root: MemSource,
    quick: bool,
) -> Option<AuditResult> {
    let alloc = rt.alloc();
    let mut machine = Machine {
        alloc,
        devices: HostIo {
            store: only_read(alloc, faults, "store", store)?,
            folder: only_read(alloc, faults, "root", root)?,
            output: Vec::new(alloc),
        },
    };
    let options = audit_options(alloc, quick)?;
    let status = audit_guarded(
        &HostMachine::new(rt),
        &mut machine,
        options,
        "store",
        "root",
    );
    let log = log_of(machine);
    Some(AuditResult { status, log })
}

// The log that a machine got.
fn log_of(machine: Machine<'_>) -> Vec<u8> {
    let HostIo {
        store: _store,
        folder: _folder,
        output,
    } = machine.devices;
    output
}

// A system of this folder, whose calls change nothing there.
fn only_read<'a>(
    alloc: Global,
    faults: &'a Faults,
    name: &'static str,
    folder: MemSource,
) -> Option<MemorySystem<'a>> {
    let elsewhere = ("elsewhere", MemDest::new(alloc));
    MemorySystem::new(alloc, faults, (name, folder), elsewhere)
}

// Gives what a run left on a machine.
fn give_back(machine: Machine<'_>, ran: &mut RunResult) {
    let HostIo {
        store,
        folder,
        output,
    } = machine.devices;
    ran.store = store.into_folders().0;
    ran.root = folder.into_folders().1;
    ran.log = output;
}

fn set_up(alloc: Global, faults: &Faults, store: MemSource, root: MemDest) -> Option<Machine<'_>> {
    let devices = HostIo {
        store: make_system(alloc, faults, store, MemDest::new(alloc))?,
        folder: make_system(alloc, faults, MemSource::new(alloc), root)?,
        output: Vec::new(alloc),
    };
    Some(Machine { alloc, devices })
}

fn make_system(
    alloc: Global,
    faults: &Faults,
    store: MemSource,
    root: MemDest,
) -> Option<MemorySystem<'_>> {
    MemorySystem::new(alloc, faults, ("store", store), ("root", root))
}

// A job with the greatest limits and three tuples of three digits.
fn make_job(alloc: Global) -> Option<Job> {
    let meta = Meta::of(
        alloc,
        "2024-05-01T12:00:00Z",
        "Ada",
        None,
        "Migrated from Pairtree",
    );
    Some(Job {
        meta: meta.ok()?,
        layout: Layout::default_form(),
        algorithm: Algorithm::Sha512,
        limits: Limits::greatest(),
        gather: false,
        share: Share::whole(),
    })
}

// Nothing is shown or recorded beside the log.
const NOTHING_SHOWN: Feedback = Feedback {
    verbose: false,
    quiet: false,
    progress: Progress::Never,
    interval: 10,
    expected: None,
    event: None,
};

fn run_options(alloc: Global, rehearse: bool) -> Option<RunOptions> {
    Some(RunOptions {
        job: make_job(alloc)?,
        ignored: Ignored::new(alloc),
        sync: false,
        rehearse,
        allowed: AllowedLines {
            present: false,
            skips: false,
        },
        feedback: NOTHING_SHOWN,
    })
}

fn audit_options(alloc: Global, quick: bool) -> Option<AuditOptions> {
    Some(AuditOptions {
        job: make_job(alloc)?,
        ignored: Ignored::new(alloc),
        skips_ok: false,
        extra: true,
        quick,
        feedback: NOTHING_SHOWN,
    })
}
