//! The system in memory: what each of its calls answers, and each as it fails.
use pt_folder::{Handle, HostDest, Input, System};
use pt_memory::texts::path;
use pt_memory::{MemDest, MemSource};
use pt_memory_system::{Faults, MemFile, MemNames, MemorySystem};
use pt_rehearsal::Rehearsal;
use pt_tree::{Dest, Kind, NamePath, TreeFault};
use std::alloc::Global;
use std::io;
use std::io::ErrorKind;
use std::test::Fail;

// A store of a file in a directory, and a link beside it; and an empty root.
fn make_system(alloc: Global, faults: &Faults) -> Result<MemorySystem<'_>, Fail> {
    let mut store = MemSource::new(alloc);
    plant_store(alloc, &mut store)?;
    let root = ("root", MemDest::new(alloc));
    match MemorySystem::new(alloc, faults, ("store", store), root) {
        Some(system) => Ok(system),
        None => Err(Fail::from(TreeFault::Device)),
    }
}

fn plant_store(alloc: Global, store: &mut MemSource) -> Result<(), Fail> {
    store.plant_dir(&path(alloc, "pairs")?)?;
    store.plant_file(&path(alloc, "pairs/a")?, b"bytes".as_slice())?;
    store.plant_other(&path(alloc, "link")?)?;
    Ok(())
}

// A call with what it answers, or with what it fails for.
#[derive(Clone, Copy)]
enum Step {
    Look(&'static str, Result<Kind, ErrorKind>),
    Length(&'static str, Result<u64, ErrorKind>),
    // The names in a directory are read by these pieces, into so many bytes.
    Names(&'static str, usize, &'static [&'static str]),
    NoNames(&'static str, ErrorKind),
    // A file is read by these pieces, each from this place on, or from where it stands.
    Read(&'static str, &'static [(Option<u64>, &'static str)]),
    NoFile(&'static str, ErrorKind),
    MakeDir(&'static str, Option<ErrorKind>),
    // So many bytes are taken of each piece that is written to a new file.
    Write(&'static str, &'static [(&'static str, usize)]),
    Move(&'static str, &'static str, Option<ErrorKind>),
    // A read or a write takes so many bytes at most from now on.
    TakeAtMost(usize),
}

// The first of these steps that goes otherwise.
fn find_wrong_step(alloc: Global, steps: &[Step]) -> Result<Option<usize>, Fail> {
    let faults = Faults::new();
    let mut system = make_system(alloc, &faults)?;
    find_wrong_step_of(&mut system, &faults, steps)
}

fn find_wrong_step_of(
    system: &mut MemorySystem<'_>,
    faults: &Faults,
    steps: &[Step],
) -> Result<Option<usize>, Fail> {
    for (i, step) in steps.iter().enumerate() {
        if !goes(system, faults, *step)? {
            return Ok(Some(i));
        }
    }
    Ok(None)
}

fn goes(system: &mut MemorySystem<'_>, faults: &Faults, step: Step) -> io::Result<bool> {
    match step {
        Step::Names(at, room, pieces) => are_names(system, at, room, pieces),
        Step::Read(at, pieces) => is_read(system, at, pieces),
        Step::Write(at, pieces) => is_written(system, at, pieces),
        Step::TakeAtMost(most) => {
            faults.take_at_most(most);
            Ok(true)
        }
        _ => Ok(is_answered(system, step)),
    }
}

// Whether a look, a change, or a call that is to fail is answered so.
fn is_answered(system: &mut MemorySystem<'_>, step: Step) -> bool {
    match step {
        Step::Look(at, answer) => answer_of(system.lstat(at)) == answer,
        Step::Length(at, answer) => answer_of(system.lstat_length(at)) == answer,
        Step::NoNames(at, error) => error_of(system.read_dir(at)) == Some(error),
        Step::NoFile(at, error) => error_of(system.open_to_read(at)) == Some(error),
        Step::MakeDir(at, error) => error_of(system.make_dir(at)) == error,
        Step::Move(from, to, error) => error_of(system.rename(from, to)) == error,
        _ => false,
    }
}

// What a call failed for.
fn error_of<T: Drop>(answer: io::Result<T>) -> Option<ErrorKind> {
    match answer {
        Ok(_) => None,
        Err(error) => Some(error.kind()),
    }
}

// What a call answers, or what it failed for.
fn answer_of<T>(answer: io::Result<T>) -> Result<T, ErrorKind> {
    match answer {
        Ok(answer) => Ok(answer),
        Err(error) => Err(error.kind()),
    }
}

fn are_names(
    system: &mut MemorySystem<'_>,
    at: &str,
    room: usize,
    pieces: &[&str],
) -> io::Result<bool> {
    let mut names = system.read_dir(at)?;
    are_pieces(&mut names, room, pieces)
}

fn are_pieces(names: &mut MemNames<'_>, room: usize, pieces: &[&str]) -> io::Result<bool> {
    for piece in pieces {
        if !is_next(names, room, piece)? {
            return Ok(false);
        }
    }
    Ok(true)
}

fn is_read(
    system: &mut MemorySystem<'_>,
    at: &str,
    pieces: &[(Option<u64>, &str)],
) -> io::Result<bool> {
    let mut file = system.open_to_read(at)?;
    holds(&mut file, pieces)
}

fn holds(file: &mut MemFile<'_>, pieces: &[(Option<u64>, &str)]) -> io::Result<bool> {
    for (place, piece) in pieces {
        if !goes_there(file, *place)? || !is_next(file, 64, piece)? {
            return Ok(false);
        }
    }
    Ok(true)
}

fn goes_there(file: &mut MemFile<'_>, place: Option<u64>) -> io::Result<bool> {
    match place {
        None => Ok(true),
        Some(place) => Ok(file.seek(place)? == place),
    }
}

// Whether this is what a read into so many bytes gives, 64 at most.
fn is_next<I: Input>(input: &mut I, room: usize, piece: &str) -> io::Result<bool> {
    let mut buffer = [0u8; 64];
    let count = input.read_piece(&mut buffer[..room.min(64)])?;
    Ok(buffer.get(..count) == Some(piece.as_bytes()))
}

fn is_written(
    system: &mut MemorySystem<'_>,
    at: &str,
    pieces: &[(&str, usize)],
) -> io::Result<bool> {
    let mut file = system.create_new(at)?;
    takes(system, &mut file, pieces)
}

fn takes<'a>(
    system: &mut MemorySystem<'a>,
    file: &mut MemFile<'a>,
    pieces: &[(&str, usize)],
) -> io::Result<bool> {
    for (piece, taken) in pieces {
        if system.write_piece(file, piece.as_bytes())? != *taken {
            return Ok(false);
        }
    }
    Ok(true)
}

const READ: &[Step] = &[
    Step::Look("store/", Ok(Kind::Dir)),
    Step::Look("store/pairs/a", Ok(Kind::File)),
    Step::Look("store/link", Ok(Kind::Other)),
    Step::Look("store/b", Err(ErrorKind::NotFound)),
    Step::Length("store/pairs/a", Ok(5)),
    Step::Length("store/b", Err(ErrorKind::NotFound)),
    Step::Names("store/", 64, &["link\0pairs\0", ""]),
];

const WHOLE_NAMES: &[Step] = &[
    Step::Names("store/", 9, &["link\0", "pairs\0"]),
    Step::NoNames("store/pairs/a", ErrorKind::NotFound),
];

const PIECES: &[(Option<u64>, &str)] = &[
    (None, "by"),
    (None, "te"),
    (None, "s"),
    (None, ""),
    (Some(3), "es"),
];

const BY_PIECES: &[Step] = &[
    Step::TakeAtMost(2),
    Step::Read("store/pairs/a", PIECES),
    Step::NoFile("store/b", ErrorKind::NotFound),
];

const WRITTEN: &[Step] = &[
    Step::MakeDir("root/staging", None),
    Step::TakeAtMost(3),
    Step::Write("root/staging/a", &[("bytes", 3), ("es", 2)]),
    Step::MakeDir("root/staging", Some(ErrorKind::AlreadyExists)),
    Step::Move("root/staging", "root/place", None),
    Step::Look("root/staging", Err(ErrorKind::NotFound)),
    Step::Look("root/place", Ok(Kind::Dir)),
    Step::Length("root/place/a", Ok(5)),
    Step::TakeAtMost(64),
    Step::Read("root/place/a", &[(None, "bytes")]),
    Step::MakeDir("store/new", Some(ErrorKind::NotFound)),
];

const FOLDERS: &[(&str, &[Step])] = &[
    ("a folder is read", READ),
    ("a directory is read by whole names", WHOLE_NAMES),
    ("a file is read by pieces", BY_PIECES),
    ("a folder is written", WRITTEN),
];

#[test]
fn the_system_in_memory_is_read_and_written(rt: HostRuntime) -> Result<(), Fail> {
    for (what, steps) in FOLDERS {
        let wrong = find_wrong_step(rt.alloc(), steps)?;
        assert!(rt; wrong.is_none(), "{what}: step {wrong:?}");
    }
    Ok(())
}

// Eight calls, one after another.
fn make_eight_calls(system: &mut MemorySystem<'_>) -> io::Result<()> {
    system.lstat("root/")?;
    system.make_dir("root/staging")?;
    write_staged(system)?;
    system.rename("root/staging", "root/place")?;
    system.lstat("root/place/a")?;
    system.lstat_length("root/place/a")?;
    Ok(())
}

fn write_staged(system: &mut MemorySystem<'_>) -> io::Result<()> {
    let mut file = system.create_new("root/staging/a")?;
    system.write_piece(&mut file, b"bytes".as_slice())?;
    file.sync()
}

// What the eight calls fail for where each call after so many fails, how many were made, and
// whether half of what is written is left.
fn fail_calls(alloc: Global, passing: u64) -> Result<(Option<ErrorKind>, u64, bool), Fail> {
    let at = path(alloc, "staging/a")?;
    let faults = Faults::new();
    let mut system = make_system(alloc, &faults)?;
    faults.fail_after(Some(passing));
    let error = error_of(make_eight_calls(&mut system));
    Ok((error, faults.calls(), is_half(system, &at)))
}

fn is_half(system: MemorySystem<'_>, at: &NamePath) -> bool {
    let (_, root) = system.into_folders();
    root.file(at) == Some(b"by".as_slice())
}

#[test]
fn each_call_fails_in_turn(rt: HostRuntime) -> Result<(), Fail> {
    for passing in 0..8 {
        // the fourth call, a write, leaves half
        let failed = fail_calls(rt.alloc(), passing)?;
        assert!(rt;
            failed == (Some(ErrorKind::Other), passing + 1, passing == 3),
            "after {passing}: {failed:?}"
        );
    }
    let passed = fail_calls(rt.alloc(), 8)?;
    assert!(rt; passed == (None, 8, false), "{passed:?}");
    Ok(())
}

fn declare(system: &mut MemorySystem<'_>) -> io::Result<()> {
    let mut file = system.create_new("root/0=ocfl_1.1")?;
    system.write_piece(&mut file, b"ocfl_1.1\n".as_slice())?;
    Ok(())
}

// The kinds of the declaration and of `staging`.
fn look_at_both(
    dest: &mut Rehearsal<'_, MemorySystem<'_>>,
    alloc: Global,
) -> Result<(Option<Kind>, Option<Kind>), TreeFault> {
    let declared = dest.kind(&path(alloc, "0=ocfl_1.1")?)?;
    Ok((declared, dest.kind(&path(alloc, "staging")?)?))
}

// A rehearsal over a root with its declaration.
fn make_rehearsal(alloc: Global, faults: &Faults) -> Result<Rehearsal<'_, MemorySystem<'_>>, Fail> {
    let mut system = make_system(alloc, faults)?;
    declare(&mut system)?;
    Ok(Rehearsal::new(alloc, HostDest::new(system, alloc, "root")))
}

fn look_after(dest: Rehearsal<'_, MemorySystem<'_>>, at: &NamePath) -> Option<Kind> {
    let (_, root) = dest.into_dest().into_system().into_folders();
    root.kind_at(at)
}

// What a rehearsal sees where the root's declaration and `staging` would be, and what is at the
// first of these after it.
fn look_in_rehearsal(alloc: Global) -> Result<[Option<Kind>; 3], Fail> {
    let declared = path(alloc, "0=ocfl_1.1")?;
    let faults = Faults::new();
    let mut dest = make_rehearsal(alloc, &faults)?;
    let kinds = look_at_both(&mut dest, alloc);
    let after = look_after(dest, &declared);
    let (first, second) = kinds?;
    Ok([first, second, after])
}

#[test]
fn a_rehearsal_looks_at_the_root(rt: HostRuntime) -> Result<(), Fail> {
    let seen = look_in_rehearsal(rt.alloc())?;
    assert!(rt;
        seen == [Some(Kind::File), None, Some(Kind::File)],
        "{seen:?}"
    );
    Ok(())
}
