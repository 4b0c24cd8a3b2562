//! What is read of a folder in memory that is seen by lengths, by its paths and by its calls.
use pt_compare::{open_standing, rest_of};
use pt_folder::{Handle, HostSource, Input, System};
use pt_memory::texts::{add, path};
use pt_memory::{MemDest, MemSource};
use pt_memory_system::{Faults, MemorySystem};
use pt_quick::ByLengths;
use pt_tree::{Block, Kind, Listing, NamePath, Source, TreeFault};
use std::alloc::Global;
use std::io;
use std::io::ErrorKind;
use std::test::Fail;

const FILES: &[(&str, &str)] = &[
    ("prefix", "ark:/13030/"),
    ("r/a/empty", ""),
    ("r/a/ten", "ten bytes!"),
    ("r/b", "exactly twenty bytes"),
    ("r/c", "twenty-one bytes long"),
];

// The path of a folder, how many slashes a file's has at most that is read itself, and what is read
// then at a path: lengths over twenty are marked.
struct Case {
    folder: &'static str,
    slashes: u64,
    at: &'static str,
    read: &'static str,
}

const CASES: &[Case] = &[
    Case {
        folder: "store",
        slashes: 0,
        at: "prefix",
        read: "11",
    },
    Case {
        folder: "store",
        slashes: 1,
        at: "prefix",
        read: "ark:/13030/",
    },
    Case {
        folder: "store",
        slashes: 1,
        at: "r/a/empty",
        read: "0",
    },
    Case {
        folder: "store",
        slashes: 1,
        at: "r/a/ten",
        read: "10",
    },
    Case {
        folder: "store",
        slashes: 1,
        at: "r/b",
        read: "20",
    },
    Case {
        folder: "store",
        slashes: 1,
        at: "r/c",
        read: "2100000000000000000000",
    },
    Case {
        folder: "store",
        slashes: 2,
        at: "r/c",
        read: "twenty-one bytes long",
    },
    Case {
        folder: "store",
        slashes: 2,
        at: "r/a/ten",
        read: "10",
    },
    Case {
        folder: "store",
        slashes: 3,
        at: "r/a/ten",
        read: "ten bytes!",
    },
    // The slashes of the folder's own path count.
    Case {
        folder: "/mnt/store",
        slashes: 2,
        at: "prefix",
        read: "11",
    },
    Case {
        folder: "/mnt/store",
        slashes: 3,
        at: "prefix",
        read: "ark:/13030/",
    },
    Case {
        folder: "/mnt/store",
        slashes: 3,
        at: "r/b",
        read: "20",
    },
];

// The files in a folder at this path.
fn make_system<'a>(
    alloc: Global,
    faults: &'a Faults,
    folder: &'a str,
) -> Result<MemorySystem<'a>, Fail> {
    let mut store = MemSource::new(alloc);
    add(alloc, &mut store, FILES)?;
    let root = ("root", MemDest::new(alloc));
    match MemorySystem::new(alloc, faults, (folder, store), root) {
        Some(system) => Ok(system),
        None => Err(Fail::from(TreeFault::Device)),
    }
}

// The bytes of the file at a path, if one is there.
fn bytes_at<S: Source>(
    alloc: Global,
    source: &mut S,
    at: &NamePath,
) -> Result<Option<Vec<u8>>, TreeFault> {
    let mut folder = NamePath::new(alloc);
    if !open_standing(alloc, source, &mut folder, at)? {
        return Ok(None);
    }
    let mut block = Block::new();
    Ok(Some(rest_of(alloc, source, &mut block)?))
}

// Whether that is read of a folder of a system.
fn is_read<S: System + Drop>(alloc: Global, system: S, case: &Case) -> Result<bool, Fail> {
    let seen = ByLengths::new(system, case.slashes, 20);
    let mut source = HostSource::new(seen, alloc, case.folder);
    let read = bytes_at(alloc, &mut source, &path(alloc, case.at)?)?;
    match read {
        Some(bytes) => Ok(bytes.as_slice() == case.read.as_bytes()),
        None => Ok(false),
    }
}

fn holds(alloc: Global, case: &Case) -> Result<bool, Fail> {
    let faults = Faults::new();
    let system = make_system(alloc, &faults, case.folder)?;
    is_read(alloc, system, case)
}

#[test]
fn files_with_long_paths_are_read_by_their_lengths(rt: HostRuntime) -> Result<(), Fail> {
    for (i, case) in CASES.iter().enumerate() {
        let held = holds(rt.alloc(), case)?;
        assert!(rt; held, "file {i}");
    }
    Ok(())
}

// Whether a prefix and a folder are at the top of a source, and nothing else.
fn lists_top<S: Source>(alloc: Global, source: &mut S) -> Result<bool, TreeFault> {
    let listing = source.list(&NamePath::new(alloc))?;
    Ok(
        listing.len() == 2
            && is_at(&listing, 0, "prefix", Kind::File)
            && is_at(&listing, 1, "r", Kind::Dir),
    )
}

fn is_at(listing: &Listing, i: usize, name: &str, kind: Kind) -> bool {
    match listing.get(i) {
        Some((entry, own)) => entry.bytes() == name.as_bytes() && own == kind,
        None => false,
    }
}

// The same of the folder of a system that is seen by lengths.
fn lists_seen<S: System + Drop>(alloc: Global, system: S) -> Result<bool, TreeFault> {
    let seen = ByLengths::new(system, 0, 20);
    let mut source = HostSource::new(seen, alloc, "store");
    lists_top(alloc, &mut source)
}

#[test]
fn a_folder_lists_what_it_lists(rt: HostRuntime) -> Result<(), Fail> {
    let faults = Faults::new();
    let system = make_system(rt.alloc(), &faults, "store")?;
    let listed = lists_seen(rt.alloc(), system)?;
    assert!(rt; listed);
    Ok(())
}

// Whether this is what a read into so many bytes gives, 8 at most.
fn is_next<I: Input>(input: &mut I, room: usize, piece: &str) -> io::Result<bool> {
    let mut buffer = [0u8; 8];
    let count = input.read_piece(&mut buffer[..room.min(8)])?;
    Ok(buffer.get(..count) == Some(piece.as_bytes()))
}

// A text is read by pieces and from any place, put onto the disk, and not written to.
fn is_text<S: System>(system: &mut S) -> io::Result<bool> {
    let mut file = system.open_to_read("store/r/a/ten")?;
    let by_pieces = is_next(&mut file, 1, "1")? && is_next(&mut file, 8, "0")?;
    let ended = is_next(&mut file, 8, "")? && file.seek(9)? == 9 && is_next(&mut file, 8, "")?;
    let again = file.seek(0)? == 0 && is_next(&mut file, 8, "10")?;
    file.sync()?;
    let written = system.write_piece(&mut file, b"x".as_slice());
    Ok(by_pieces && ended && again && written.is_err())
}

// One call asks for a length, and none reads its text.
fn calls_once(alloc: Global) -> Result<bool, Fail> {
    let faults = Faults::new();
    let mut seen = ByLengths::new(make_system(alloc, &faults, "store")?, 1, 20);
    Ok(is_text(&mut seen)? && faults.calls() == 1)
}

#[test]
fn a_text_is_read_without_a_call(rt: HostRuntime) -> Result<(), Fail> {
    let once = calls_once(rt.alloc())?;
    assert!(rt; once);
    Ok(())
}

// What a call failed for.
fn error_of<T: Drop>(answer: io::Result<T>) -> Option<ErrorKind> {
    match answer {
        Ok(_) => None,
        Err(error) => Some(error.kind()),
    }
}

// The lengths that are told of a file that is seen so, and of one that isn't; and what an opening
// fails for whose one call fails.
fn tell_lengths(alloc: Global) -> Result<(u64, u64, Option<ErrorKind>), Fail> {
    let faults = Faults::new();
    let mut seen = ByLengths::new(make_system(alloc, &faults, "store")?, 2, 20);
    let measured = seen.lstat_length("store/r/a/ten")?;
    let own = seen.lstat_length("store/r/c")?;
    faults.fail_after(Some(0));
    Ok((measured, own, error_of(seen.open_to_read("store/r/a/ten"))))
}

#[test]
fn the_length_of_a_text_is_told(rt: HostRuntime) -> Result<(), Fail> {
    let told = tell_lengths(rt.alloc())?;
    assert!(rt; told == (2, 21, Some(ErrorKind::Other)), "{told:?}");
    Ok(())
}
