//! A machine of two folders that are made, and the calls of the program on it.
ghost use Rattle.std.specs.Prelude.{⊤};

use crate::system::MadeSystem;
use crate::trace::Trace;
use pt_guard::{Claim, FileId, LockAttempt, Places};
use pt_host::{
    AllowedLines, AuditOptions, Feedback, Host, HostIo, Progress, RunOptions, Syncs, audit_guarded,
    run_guarded,
};
use pt_machine::HostMachine;
use pt_move::Job;
use pt_name::{Layout, Share};
use pt_object::{Algorithm, Meta};
use pt_tree::{Ignored, Name};
use pt_walk::Limits;
use std::alloc::{AllocGlobal, Global};
use std::io;
use std::io::{ErrorKind, Write};
use std::path::PathBuf;

// Names that are left out, where that is asked.
const LEFT_OUT: &[&str] = &[".DS_Store", "Thumbs.db"];

/// What takes the log.
#[derive(Drop)]
pub struct Sink<'a>(&'a Trace);

impl<'a> Write for Sink<'a> {
    fn write(&mut self, buf: &[u8]) -> io::Result<usize> {
        self.0.feed(buf);
        Ok(buf.len())
    }

    fn flush(&mut self) -> io::Result<()> {
        Ok(())
    }
}

/// A machine with a store and a folder for the root.
#[derive(Drop)]
pub struct Machine<'a> {
    alloc: Global,
    trace: &'a Trace,
    /// The folder of the store.
    pub store: MadeSystem<'a>,
    /// The folder of the root.
    pub root: MadeSystem<'a>,
}

impl<'a> Machine<'a> {
    /// A machine of these folders.
    pub fn new(
        alloc: Global,
        trace: &'a Trace,
        store: MadeSystem<'a>,
        root: MadeSystem<'a>,
    ) -> Machine<'a> {
        Machine {
            alloc,
            trace,
            store,
            root,
        }
    }
}

/// The file that no output goes to.
#[derive(Drop)]
pub struct NoFile;

impl Syncs for NoFile {
    ghost syncs = { λ _ _ _. ⊤ };

    fn sync(&mut self) -> io::Result<()> {
        Ok(())
    }
}

impl<'a> Places for Machine<'a> {
    type Lock = u8;

    ghost does = { λ _ _ _. ⊤ };

    fn resolve(&mut self, _: Global, _: &str) -> io::Result<PathBuf> {
        Err(io::Error::from(ErrorKind::NotFound))
    }

    fn identify(&mut self, _: &str) -> io::Result<FileId> {
        Err(io::Error::from(ErrorKind::NotFound))
    }

    fn look(&mut self, _: &str) -> io::Result<()> {
        Err(io::Error::from(ErrorKind::NotFound))
    }

    fn hold(&mut self, _: &str, _: Claim) -> LockAttempt<u8> {
        LockAttempt::Held(7)
    }

    fn release(&mut self, _: u8) {}
}

impl<'a> Host for Machine<'a> {
    type Store = MadeSystem<'a>;

    type Folder = MadeSystem<'a>;

    type Output = Sink<'a>;

    type File = NoFile;

    ghost does = { λ _ _ _. ⊤ };

    fn output_file(&mut self) -> io::Result<Option<NoFile>> {
        Ok(None)
    }

    fn lend(&mut self) -> HostIo<MadeSystem<'a>, MadeSystem<'a>, Sink<'a>> {
        HostIo {
            store: self.store.take(),
            folder: self.root.take(),
            output: Sink(self.trace),
        }
    }

    fn take_back(&mut self, host_io: HostIo<MadeSystem<'a>, MadeSystem<'a>, Sink<'a>>)
        ensures { ⊤ }
    {
        self.store = host_io.store;
        self.root = host_io.folder;
    }

    fn create_new(&mut self, _: &str, _: &str) -> io::Result<()> {
        Err(io::Error::from(ErrorKind::PermissionDenied))
    }

    fn move_file(&mut self, _: &str, _: &str) -> io::Result<()> {
        Err(io::Error::from(ErrorKind::PermissionDenied))
    }

    fn tell(&mut self, _: &str) {}
}

/// How a store is carried.
#[derive(Clone, Copy)]
pub struct How {
    /// Whether that is rehearsed only.
    pub rehearse: bool,
    /// Whether divided sites are gathered.
    pub gather: bool,
    /// Whether the names of what desktops leave behind are left out.
    pub tidy: bool,
}

// Neither how far a run is nor a summary.
const NOTHING_SHOWN: Feedback = Feedback {
    verbose: false,
    quiet: false,
    progress: Progress::Never,
    interval: 10,
    expected: None,
    event: None,
};

/// Carries the store into the root, or rehearses that.
pub fn carry(rt: &HostRuntime, machine: &mut Machine<'_>, how: How) -> Option<u8> {
    let options = RunOptions {
        job: job(machine.alloc, how.gather)?,
        ignored: ignored(machine.alloc, how.tidy)?,
        sync: false,
        rehearse: how.rehearse,
        allowed: AllowedLines {
            present: false,
            skips: false,
        },
        feedback: NOTHING_SHOWN,
    };
    Some(run_guarded(&HostMachine::new(rt), machine, options, "store", "root"))
}

/// Holds the root against the store.
pub fn audit(rt: &HostRuntime, machine: &mut Machine<'_>) -> Option<u8> {
    let options = AuditOptions {
        job: job(machine.alloc, false)?,
        ignored: ignored(machine.alloc, false)?,
        skips_ok: false,
        extra: false,
        quick: false,
        feedback: NOTHING_SHOWN,
    };
    Some(audit_guarded(&HostMachine::new(rt), machine, options, "store", "root"))
}

// The names that are left out.
fn ignored(alloc: Global, tidy: bool) -> Option<Ignored> {
    let mut ignored = Ignored::new(alloc);
    if tidy {
        for name in LEFT_OUT {
            ignored.add(Name::of(alloc, name.as_bytes()).ok()?).ok()?;
        }
    }
    Some(ignored)
}

// A run with the greatest limits and three tuples of three digits.
fn job(alloc: Global, gather: bool) -> Option<Job> {
    let meta = Meta::of(
        alloc,
        "2024-05-01T12:00:00Z",
        "Ada",
        None,
        "Migrated from Pairtree",
    );
    Some(Job {
        meta: meta.ok()?,
        layout: Layout::default_form(),
        algorithm: Algorithm::Sha512,
        limits: Limits::greatest(),
        gather,
        share: Share::whole(),
    })
}
