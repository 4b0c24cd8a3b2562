//! Whether a run or an audit may begin between two folders: they lie apart, none is a root itself,
//! and the lock can be had.
ghost use Rattle.std.specs.Prelude.{⊤};

use pt_guard::{
    Claim, FileFault, FileId, FolderLock, GuardFault, LockAttempt, Places, begin, judge_file,
};
use std::alloc::Global;
use std::cell::Cell;
use std::io;
use std::io::ErrorKind;
use std::path::PathBuf;

// Where paths lead; a path that leads to `NO_MEMORY_AT` is answered want of memory.
type Leads = &'static [(&'static str, &'static str)];

const NO_MEMORY_AT: &str = "";

// The numbers of folders at paths; what is known by `NO_MEMORY_FOR` is answered want of memory.
type Numbers = &'static [(&'static str, u64)];

const NO_MEMORY_FOR: u64 = 0;

// What comes of asking for the lock.
#[derive(Clone, Copy)]
enum Lock {
    Held,
    // Others share it.
    Shared,
    Taken,
    // The folder is a storage root itself.
    Root,
    Unknown,
    Wanting,
}

#[derive(Drop)]
struct FakePlaces {
    leads: Leads,
    numbers: Numbers,
    lock: Lock,
    asked: Cell<bool>,
}

impl<'a> Places for &'a FakePlaces {
    type Lock = u8;

    ghost does = { λ _ _ _. ⊤ };

    fn resolve(&mut self, alloc: Global, path: &str) -> io::Result<PathBuf> {
        for (from, to) in self.leads {
            if *from == path && to.is_empty() {
                return Err(io::Error::from(ErrorKind::OutOfMemory));
            }
            if *from == path {
                return Ok(PathBuf::from(String::from_str(alloc, to)?));
            }
        }
        Err(io::Error::from(ErrorKind::NotFound))
    }

    // A folder is known by its number, or else by the length of its path.
    fn identify(&mut self, path: &str) -> io::Result<FileId> {
        for (at, inode) in self.numbers {
            if *at == path && *inode == NO_MEMORY_FOR {
                return Err(io::Error::from(ErrorKind::OutOfMemory));
            }
            if *at == path {
                return Ok(FileId {
                    device: 1,
                    inode: *inode,
                });
            }
        }
        if !path.starts_with("/") {
            return Err(io::Error::from(ErrorKind::NotFound));
        }
        Ok(FileId {
            device: 2,
            inode: path.len() as u64,
        })
    }

    fn look(&mut self, _: &str) -> io::Result<()> {
        Err(io::Error::from(ErrorKind::NotFound))
    }

    fn hold(&mut self, _: &str, claim: Claim) -> LockAttempt<u8> {
        self.asked.set(true);
        match (self.lock, claim) {
            (Lock::Held, _) | (Lock::Shared, Claim::Shared) => LockAttempt::Held(7),
            (Lock::Taken, _) | (Lock::Shared, Claim::Alone) => LockAttempt::Taken,
            (Lock::Root, _) => LockAttempt::Root,
            (Lock::Unknown, _) => LockAttempt::Unknown(io::Error::from(
                ErrorKind::PermissionDenied,
            )),
            (Lock::Wanting, _) => LockAttempt::Unknown(io::Error::from(ErrorKind::OutOfMemory)),
        }
    }

    fn release(&mut self, _: u8) {}
}

fn make_places(leads: Leads, numbers: Numbers, lock: Lock) -> FakePlaces {
    FakePlaces {
        leads,
        numbers,
        lock,
        asked: Cell::new(false),
    }
}

// What comes of a run between the two folders `s` and `d`.
fn begin_run(alloc: Global, paths: &FakePlaces) -> Result<FolderLock<u8>, GuardFault> {
    begin(&mut &*paths, alloc, Claim::Alone, "s", "d")
}

// What comes of an audit of them.
fn begin_audit(alloc: Global, paths: &FakePlaces) -> Result<FolderLock<u8>, GuardFault> {
    begin(&mut &*paths, alloc, Claim::Shared, "s", "d")
}

// What comes of it where the lock can be had: the lock that it begins with, if it has one, or what
// it is refused for.
fn find_lock(alloc: Global, leads: Leads, numbers: Numbers) -> Result<Option<u8>, GuardFault> {
    match begin_run(alloc, &make_places(leads, numbers, Lock::Held))? {
        FolderLock::Held(lock) => Ok(Some(lock)),
        FolderLock::Unheld(_) => Ok(None),
    }
}

// Whether it is refused as an overlap, before the lock is asked for.
fn is_refused_before_the_lock(alloc: Global, leads: Leads) -> bool {
    let paths = make_places(leads, &[("s", 1), ("d", 2)], Lock::Taken);
    matches!(begin_run(alloc, &paths), Err(GuardFault::Overlap)) && !paths.asked.get()
}

// Whether it begins where it has the lock, or can't ask for it, and is refused where another has it
// or memory is wanting for it.
fn begins_by_its_lock(alloc: Global, leads: Leads, numbers: Numbers) -> bool {
    let held = begin_run(alloc, &make_places(leads, numbers, Lock::Held));
    let taken = begin_run(alloc, &make_places(leads, numbers, Lock::Taken));
    let unknown = begin_run(alloc, &make_places(leads, numbers, Lock::Unknown));
    let wanting = begin_run(alloc, &make_places(leads, numbers, Lock::Wanting));
    let refused = (taken.err(), wanting.err());
    matches!(held, Ok(FolderLock::Held(7)))
        && refused == (Some(GuardFault::Taken), Some(GuardFault::Memory))
        && is_denied(unknown)
}

// Whether it begins without its lock, which it wasn't let ask for.
fn is_denied(answer: Result<FolderLock<u8>, GuardFault>) -> bool {
    match answer {
        Ok(FolderLock::Unheld(error)) => error.kind() == ErrorKind::PermissionDenied,
        _ => false,
    }
}

const OVERLAPPING: &[Leads] = &[
    &[("s", "/x"), ("d", "/x")],
    &[("s", "/x"), ("d", "/x/y/z")],
    &[("s", "/d/ocfl/in"), ("d", "/d"), ("d/ocfl", "/d/ocfl")],
    &[("s", "/else/in"), ("d", "/d"), ("d/staging", "/else")],
];

#[test]
fn folders_in_one_another_are_refused(rt: HostRuntime) {
    for leads in OVERLAPPING {
        assert!(rt; is_refused_before_the_lock(rt.alloc(), leads), "{leads:?}");
    }
}

const APART: &[(Leads, Numbers)] = &[
    (&[("s", "/x"), ("d", "/xy")], &[("s", 1), ("d", 2)]),
    (
        &[("s", "/d/beside"), ("d", "/d"), ("d/ocfl", "/d/ocfl")],
        &[("s", 1), ("d", 2), ("d/ocfl", 4)],
    ),
    (&[("s", "/x")], &[("s", 1)]),
    (&[("d", "/x")], &[("d", 2)]),
];

#[test]
fn folders_apart_begin_where_the_lock_can_be_had(rt: HostRuntime) {
    for (leads, numbers) in APART {
        assert!(rt; begins_by_its_lock(rt.alloc(), leads, numbers), "{leads:?}");
    }
}

#[test]
fn a_shared_lock_keeps_runs_out_and_lets_audits_in(rt: HostRuntime) {
    for (leads, numbers) in APART {
        let shared = make_places(leads, numbers, Lock::Shared);
        let run = begin_run(rt.alloc(), &shared);
        let audit = begin_audit(rt.alloc(), &shared);
        assert!(rt; run.err() == Some(GuardFault::Taken), "{leads:?}");
        assert!(rt; matches!(audit, Ok(FolderLock::Held(7))), "{leads:?}");
        let taken = begin_audit(rt.alloc(), &make_places(leads, numbers, Lock::Taken));
        assert!(rt; taken.err() == Some(GuardFault::Taken), "{leads:?}");
    }
}

#[test]
fn a_root_itself_is_refused(rt: HostRuntime) {
    for (leads, numbers) in APART {
        let paths = make_places(leads, numbers, Lock::Root);
        let refused = (
            begin_run(rt.alloc(), &paths).err(),
            begin_audit(rt.alloc(), &paths).err(),
        );
        let wanted = Some(GuardFault::Root);
        assert!(rt; refused == (wanted, wanted), "{leads:?}");
    }
    for leads in OVERLAPPING {
        let paths = make_places(leads, &[("s", 1), ("d", 2)], Lock::Root);
        let refused = begin_run(rt.alloc(), &paths).err();
        assert!(rt; refused == Some(GuardFault::Overlap), "{leads:?}");
    }
}

// Two folders that lie apart by their paths.
const TWO_FOLDERS: Leads = &[
    ("s", "/x/s"),
    ("s/pairtree_root", "/x/s/pairtree_root"),
    ("d", "/y/z/d"),
    ("d/ocfl", "/y/z/d/ocfl"),
];

// What paths on the way to them are known by, and what comes of a run then.
const KNOWN_ABOVE: &[(Numbers, Result<Option<u8>, GuardFault>)] = &[
    (
        &[
            ("s", 1),
            ("s/pairtree_root", 3),
            ("d/ocfl", 4),
            ("/y/z/d", 1),
        ],
        Err(GuardFault::Overlap),
    ),
    (
        &[("s", 1), ("s/pairtree_root", 3), ("d/ocfl", 4), ("/y/z", 1)],
        Err(GuardFault::Overlap),
    ),
    (
        &[("s", 1), ("s/pairtree_root", 3), ("d/ocfl", 4), ("/", 1)],
        Err(GuardFault::Overlap),
    ),
    (
        &[("s", 1), ("s/pairtree_root", 3), ("d/ocfl", 4), ("/y", 3)],
        Err(GuardFault::Overlap),
    ),
    (
        &[("s", 1), ("s/pairtree_root", 3), ("d/ocfl", 4), ("/x", 4)],
        Err(GuardFault::Overlap),
    ),
    (
        &[
            ("s", 1),
            ("s/pairtree_root", 3),
            ("d/ocfl", 4),
            ("/x/s/pairtree_root", 4),
        ],
        Err(GuardFault::Overlap),
    ),
    (
        &[("s", 1), ("s/pairtree_root", 3), ("d/ocfl", 4), ("/", 9)],
        Ok(Some(7)),
    ),
];

#[test]
fn a_folder_is_known_by_another_path(rt: HostRuntime) {
    for (numbers, comes) in KNOWN_ABOVE {
        assert!(rt;
            find_lock(rt.alloc(), TWO_FOLDERS, numbers) == *comes,
            "{numbers:?}"
        );
    }
}

// Folders that stand, one of which has no place.
const WITHOUT_A_PLACE: &[(Leads, Numbers)] = &[
    (&[("s", "/x")], &[("s", 1), ("d", 2)]),
    (&[("d", "/x")], &[("s", 1), ("d", 2)]),
    (&[("s", "/x"), ("d", "/y")], &[("d", 2)]),
];

#[test]
fn what_stands_and_has_no_place_is_refused(rt: HostRuntime) {
    for (leads, numbers) in WITHOUT_A_PLACE {
        let comes = find_lock(rt.alloc(), leads, numbers);
        assert!(rt; comes == Err(GuardFault::Hidden), "{leads:?}");
    }
}

// Places that are asked for where memory is wanting: of a path's place, of a folder's number, and
// of the number of what has no place.
const WANTING_MEMORY: &[(Leads, Numbers)] = &[
    (&[("d", NO_MEMORY_AT)], &[("s", 1), ("d", 2)]),
    (&[("s", NO_MEMORY_AT), ("d", "/y")], &[("s", 1), ("d", 2)]),
    (
        &[("s", "/x"), ("d", "/y"), ("d/ocfl", NO_MEMORY_AT)],
        &[("s", 1), ("d", 2)],
    ),
    (
        &[("s", "/x"), ("d", "/y")],
        &[("s", NO_MEMORY_FOR), ("d", 2)],
    ),
    (
        &[("s", "/x"), ("d", "/y")],
        &[("s", 1), ("/y", NO_MEMORY_FOR)],
    ),
    (&[("s", "/x")], &[("s", 1), ("d", NO_MEMORY_FOR)]),
];

#[test]
fn want_of_memory_is_told_as_such(rt: HostRuntime) {
    for (leads, numbers) in WANTING_MEMORY {
        let comes = find_lock(rt.alloc(), leads, numbers);
        assert!(rt; comes == Err(GuardFault::Memory), "{leads:?}");
    }
}

// A file beside the folders `s` and `d`, where paths lead, what is known of them, and whether the
// file may be made.
struct FileRow {
    file: &'static str,
    leads: Leads,
    numbers: Numbers,
    comes: Result<(), FileFault>,
}

const TWO: Numbers = &[("s", 1), ("d", 2)];

const FILES: &[FileRow] = &[
    FileRow {
        file: "x/ev",
        leads: &[("s", "/a"), ("d", "/b"), ("x", "/c")],
        numbers: TWO,
        comes: Ok(()),
    },
    FileRow {
        file: "x/ev",
        leads: &[("s", "/a"), ("d", "/b")],
        numbers: TWO,
        comes: Ok(()),
    },
    FileRow {
        file: "x/ev",
        leads: &[("s", "/a"), ("d", "/b"), ("x", "/a/in")],
        numbers: TWO,
        comes: Err(FileFault::Inside),
    },
    FileRow {
        file: "x/ev",
        leads: &[("s", "/a"), ("d", "/b"), ("x", "/c")],
        numbers: &[("s", 1), ("d", 2), ("/c", 1)],
        comes: Err(FileFault::Inside),
    },
    FileRow {
        file: "x/ev",
        leads: &[
            ("s", "/a"),
            ("d", "/b"),
            ("d/staging", "/e"),
            ("x", "/e/in"),
        ],
        numbers: TWO,
        comes: Err(FileFault::Inside),
    },
    FileRow {
        file: "ev",
        leads: &[("s", "/a"), ("d", "/b"), (".", "/b")],
        numbers: TWO,
        comes: Ok(()),
    },
    FileRow {
        file: "ocfl",
        leads: &[("s", "/a"), ("d", "/b"), (".", "/b")],
        numbers: TWO,
        comes: Err(FileFault::Inside),
    },
    FileRow {
        file: "x/staging/",
        leads: &[("s", "/a"), ("d", "/b"), ("x", "/b")],
        numbers: TWO,
        comes: Err(FileFault::Inside),
    },
    FileRow {
        file: "x/staging",
        leads: &[("s", "/a"), ("d", "/b"), ("x", "/c")],
        numbers: TWO,
        comes: Ok(()),
    },
    FileRow {
        file: "x/ev",
        leads: &[("s", "/a"), ("d", "/b")],
        numbers: &[("s", 1), ("d", 2), ("x", 3)],
        comes: Err(FileFault::Hidden),
    },
    FileRow {
        file: "x/ev",
        leads: &[("s", "/a"), ("d", "/b"), ("x", NO_MEMORY_AT)],
        numbers: TWO,
        comes: Err(FileFault::Memory),
    },
];

impl FileRow {
    // Whether the file is judged so beside this destination, if there is one.
    fn holds(&self, alloc: Global, dest: Option<&str>) -> bool {
        let paths = make_places(self.leads, self.numbers, Lock::Held);
        judge_file(&mut &paths, alloc, self.file, "s", dest) == self.comes
    }
}

#[test]
fn files_are_judged_by_their_folders(rt: HostRuntime) {
    for row in FILES {
        assert!(rt;
            row.holds(rt.alloc(), Some("d")),
            "{} {:?}",
            row.file,
            row.leads
        );
    }
}

// Files of a check, which has no destination: what `ocfl` of the store leads to isn't asked for.
const FILES_OF_CHECK: &[FileRow] = &[
    FileRow {
        file: "x/ev",
        leads: &[("s", "/a"), ("s/ocfl", "/c"), ("x", "/c")],
        numbers: &[("s", 1)],
        comes: Ok(()),
    },
    FileRow {
        file: "x/ev",
        leads: &[("s", "/a"), ("s/pairtree_root", "/c"), ("x", "/c")],
        numbers: &[("s", 1)],
        comes: Err(FileFault::Inside),
    },
];

#[test]
fn file_of_a_check_is_judged_by_its_store(rt: HostRuntime) {
    for row in FILES_OF_CHECK {
        assert!(rt; row.holds(rt.alloc(), None), "{} {:?}", row.file, row.leads);
    }
}
