//! Sources and destinations in memory: what they plant, list, read, make, move and take away.
ghost use Rattle.pt_tree.specs.Dest.{MayMake};
ghost use Rattle.pt_memory.specs.MemDest.{dest_told};
ghost use Rattle.pt_tree.specs.Source.{CanOpen};

use crate::names::is_entry;
use crate::tables::none_goes_wrong;
use pt_memory::texts::{path, tree};
use pt_memory::{MemDest, MemSource, PlantFault, SwapFault, TakeFault};
use pt_tree::{
    Block, Dest, Kind, ListingFault, MemoryFault, NameFault, NamePath, Source, TreeFault,
};
use std::alloc::Global;

// Texts of 8,191 to 8,194 bytes: a block has up to 8,192.
const A_8191: &[u8] = &[b'a'; 8191];

pub(crate) const A_8192: &[u8] = &[b'a'; 8192];

pub(crate) const A_8193: &[u8] = &[b'a'; 8193];

/// A tree that rows of this kind are about: what is done at a path, or found there.
pub(crate) trait Goes<W> {
    /// Whether that goes as the row says.
    fn goes(&mut self, alloc: Global, at: &NamePath, what: &W) -> bool;
}

fn goes_at<W, T: Goes<W>>(tree: &mut T, alloc: Global, at: &str, what: &W) -> bool {
    match path(alloc, at) {
        Ok(at) => tree.goes(alloc, &at, what),
        Err(_) => false,
    }
}

/// The first of these rows that goes otherwise over this tree, counted from 0.
pub(crate) fn find_wrong_row<W, T: Goes<W> + Drop>(
    tree: T,
    alloc: Global,
    rows: &[(&str, W)],
) -> Option<usize> {
    let mut tree = tree;
    for (i, (at, what)) in rows.iter().enumerate() {
        if !goes_at(&mut tree, alloc, at, what) {
            return Some(i);
        }
    }
    None
}

// What is done at a path of a source, or found there.
enum InSource {
    // Planting an entry is answered so. A file has the bytes `abc`.
    Plant(Kind, Result<(), PlantFault>),
    // The file has these bytes; or there is none.
    Has(Option<&'static [u8]>),
    // A file of these bytes is planted and read in so many calls, and none of them fails.
    IsReadIn(&'static [u8], usize),
    // The directory is listed with this entry at this place, or with none there.
    Lists(usize, Option<(&'static str, Kind)>),
    // The directory can't be listed once the fuse is blown, and that is counted.
    FailsToList,
    // A look at what stands there is answered so.
    Shows(Result<Option<Kind>, TreeFault>),
    // The fuse lets so many calls pass.
    Fuse(u64),
    // The source failed so often.
    Failed(u64),
}

impl Goes<InSource> for MemSource {
    fn goes(&mut self, _: Global, at: &NamePath, what: &InSource) -> bool {
        match what {
            InSource::Plant(kind, answer) => plant(self, at, *kind) == *answer,
            InSource::Has(bytes) => has(self, at, *bytes),
            InSource::IsReadIn(bytes, calls) => is_read_in(self, at, bytes, *calls),
            InSource::Lists(place, entry) => lists(self, at, *place, *entry),
            InSource::FailsToList => fails_to_list(self, at),
            InSource::Shows(answer) => self.kind(at) == *answer,
            InSource::Fuse(calls) => blows_after(self, *calls),
            InSource::Failed(failures) => self.failures() == *failures,
        }
    }
}

fn has(source: &MemSource, at: &NamePath, bytes: Option<&[u8]>) -> bool {
    source.file(at) == bytes
}

fn plant(source: &mut MemSource, at: &NamePath, kind: Kind) -> Result<(), PlantFault> {
    match kind {
        Kind::Dir => source.plant_dir(at),
        Kind::File => source.plant_file(at, b"abc"),
        Kind::Other => source.plant_other(at),
    }
}

pub(crate) fn plants(source: &mut MemSource, file: &NamePath, bytes: &[u8]) -> bool {
    source.plant_file(file, bytes).is_ok()
}

/// Reads the file at a path to its end, and answers how many bytes it has and how many calls of
/// `next` that took.
#[tactic(auto, using(pt_tree::proofs::Held::reading))]
pub(crate) fn read_file<S: Source>(
    source: &mut S,
    path: &NamePath,
) -> Result<(usize, usize), TreeFault>
    requires { CanOpen (S.told source.old) path.now }
{
    let mut length = 0usize;
    let mut block = Block::new();
    source.open(path)?;
    for calls in 1..100usize {
        source.next(&mut block)?;
        if block.is_empty() {
            return Ok((length, calls));
        }
        length = length.saturating_add(block.len());
    }
    Ok((length, 100))
}

fn is_read_in(source: &mut MemSource, file: &NamePath, bytes: &[u8], calls: usize) -> bool {
    plants(source, file, bytes)
        && source.has_file(file)
        && read_file(source, file) == Ok((bytes.len(), calls))
        && source.failures() == 0
}

fn lists(
    source: &mut MemSource,
    dir: &NamePath,
    place: usize,
    entry: Option<(&str, Kind)>,
) -> bool {
    if !source.has_dir(dir) {
        return false;
    }
    match source.list(dir) {
        Ok(listing) => is_entry(&listing, place, entry),
        Err(_) => false,
    }
}

fn fails_to_list(source: &mut MemSource, dir: &NamePath) -> bool {
    source.fuse(Some(0));
    if !source.has_dir(dir) {
        return false;
    }
    match source.list(dir) {
        Ok(_) => false,
        Err(fault) => fault == TreeFault::Device && source.failures() == 1,
    }
}

fn blows_after(source: &mut MemSource, calls: u64) -> bool {
    source.fuse(Some(calls));
    true
}

const NO_PLACE: &[(&str, InSource)] = &[
    (
        "x/y",
        InSource::Plant(Kind::File, Err(PlantFault::NoParent)),
    ),
    ("x", InSource::Plant(Kind::Dir, Ok(()))),
    ("x", InSource::Plant(Kind::Dir, Err(PlantFault::Taken))),
    ("", InSource::Plant(Kind::Dir, Err(PlantFault::Taken))),
    ("x/z", InSource::Plant(Kind::Other, Ok(()))),
    ("x/y", InSource::Plant(Kind::File, Ok(()))),
    ("x/y", InSource::Has(Some(b"abc"))),
    ("x", InSource::Has(None)),
];

const IN_BLOCKS: &[(&str, InSource)] = &[
    ("f", InSource::IsReadIn(b"", 1)),
    ("g", InSource::IsReadIn(A_8191, 2)),
    ("h", InSource::IsReadIn(A_8192, 2)),
    ("i", InSource::IsReadIn(A_8193, 3)),
];

const THREE_KINDS: &[(&str, InSource)] = &[
    ("b", InSource::Plant(Kind::File, Ok(()))),
    ("a", InSource::Plant(Kind::Dir, Ok(()))),
    ("c", InSource::Plant(Kind::Other, Ok(()))),
    ("", InSource::Lists(0, Some(("a", Kind::Dir)))),
    ("", InSource::Lists(1, Some(("b", Kind::File)))),
    ("", InSource::Lists(2, Some(("c", Kind::Other)))),
    ("", InSource::Lists(3, None)),
    ("", InSource::FailsToList),
];

// A look shows what stands; below what is no directory nothing does. It is a call as any other,
// also for the fuse.
const LOOKS: &[(&str, InSource)] = &[
    ("a", InSource::Plant(Kind::Dir, Ok(()))),
    ("a/b", InSource::Plant(Kind::File, Ok(()))),
    ("a/c", InSource::Plant(Kind::Other, Ok(()))),
    ("", InSource::Shows(Ok(Some(Kind::Dir)))),
    ("a", InSource::Shows(Ok(Some(Kind::Dir)))),
    ("a/b", InSource::Shows(Ok(Some(Kind::File)))),
    ("a/c", InSource::Shows(Ok(Some(Kind::Other)))),
    ("a/d", InSource::Shows(Ok(None))),
    ("d", InSource::Shows(Ok(None))),
    ("a/b/d", InSource::Shows(Ok(None))),
    ("d/e", InSource::Shows(Ok(None))),
    ("", InSource::Failed(0)),
    ("", InSource::Fuse(2)),
    ("a", InSource::Shows(Ok(Some(Kind::Dir)))),
    ("a/d", InSource::Shows(Ok(None))),
    ("a", InSource::Shows(Err(TreeFault::Device))),
    ("", InSource::Failed(1)),
];

const SOURCES: &[(&str, &[(&str, InSource)])] = &[
    ("planting is refused where it has no place", NO_PLACE),
    ("a file is read block by block", IN_BLOCKS),
    (
        "names and kinds are listed, and the fuse is blown",
        THREE_KINDS,
    ),
    ("a look shows the kind of what stands", LOOKS),
];

#[test]
fn sources_go_as_the_rows_say(rt: HostRuntime) {
    for (what, rows) in SOURCES {
        let source = MemSource::new(rt.alloc());
        none_goes_wrong(&rt, what, find_wrong_row(source, rt.alloc(), rows));
    }
}

// What is done at a path of a destination, or found there.
enum InDest {
    // A directory may be made, and is.
    MakesDir,
    // A file may be made, and is made of these pieces.
    MakesFile(&'static [&'static [u8]]),
    // A file may be made, and an append of it that fails leaves half of its piece.
    LeavesHalf,
    // Nothing may be made.
    MayNotMake,
    // What is there may not be moved to this path.
    MayNotMove(&'static str),
    // It may be, and is.
    Moves(&'static str),
    // What stands there.
    Stands(Option<Kind>),
    // The file has these bytes, in the tree and for who looks at its first block.
    Has(&'static [u8]),
    // Taking away what is there is answered so.
    Take(Result<(), TakeFault>),
    // The whole destination is the tree of these files; or it isn't.
    Is(bool, &'static [(&'static str, &'static str)]),
}

impl Goes<InDest> for MemDest {
    fn goes(&mut self, alloc: Global, at: &NamePath, what: &InDest) -> bool {
        match what {
            InDest::MakesDir => self.may_make(at) && self.mkdir(at).is_ok(),
            InDest::MakesFile(pieces) => self.may_make(at) && write_file(self, at, pieces).is_ok(),
            InDest::LeavesHalf => leaves_half_of_a_piece(self, at),
            InDest::MayNotMake => !self.may_make(at),
            InDest::MayNotMove(to) => may_not_move(self, alloc, at, to),
            InDest::Moves(to) => moves(self, alloc, at, to),
            InDest::Stands(kind) => self.kind(at) == Ok(*kind),
            InDest::Has(bytes) => has_file(self, at, bytes) && is_peeked(self, at, bytes),
            InDest::Take(answer) => self.take_away(at) == *answer,
            InDest::Is(is_same, files) => is_tree(self, alloc, files, *is_same),
        }
    }
}

// Writes a file in pieces, and closes it.
#[tactic(auto, using(pt_tree::proofs::Held::writing))]
fn write_file<D: Dest>(dest: &mut D, path: &NamePath, pieces: &[&[u8]]) -> Result<(), TreeFault>
    requires { MayMake (D.told dest.old) path.now }
{
    dest.create(path)?;
    for piece in pieces {
        dest.append(piece)?;
    }
    dest.finish()?;
    Ok(())
}

// The open file takes `ab`, half of `abcde` and `c`.
#[tactic(auto, using(pt_tree::proofs::Held::writing))]
fn append_by_a_fuse(dest: &mut MemDest, file: &NamePath) -> Result<(), TreeFault>
    requires { MayMake (dest_told dest.old) file.now }
{
    dest.create(file)?;
    dest.fuse(Some(1));
    dest.append(b"ab")?;
    let Err(_) = dest.append(b"abcde") else {
        return Ok(());
    };
    dest.fuse(None);
    dest.append(b"c")?;
    Ok(())
}

fn leaves_half_of_a_piece(dest: &mut MemDest, file: &NamePath) -> bool {
    dest.may_make(file)
        && append_by_a_fuse(dest, file).is_ok()
        && has_file(dest, file, b"ababc")
        && dest.failures() == 1
}

fn may_not_move(dest: &MemDest, alloc: Global, from: &NamePath, to: &str) -> bool {
    match path(alloc, to) {
        Ok(to) => !dest.may_move(from, &to),
        Err(_) => false,
    }
}

fn moves(dest: &mut MemDest, alloc: Global, from: &NamePath, to: &str) -> bool {
    match path(alloc, to) {
        Ok(to) => dest.may_move(from, &to) && dest.rename(from, &to).is_ok(),
        Err(_) => false,
    }
}

fn has_file(dest: &MemDest, at: &NamePath, bytes: &[u8]) -> bool {
    dest.file(at) == Some(bytes)
}

fn is_peeked(dest: &mut MemDest, at: &NamePath, bytes: &[u8]) -> bool {
    let mut block = Block::new();
    dest.has_file(at) && dest.peek(at, &mut block).is_ok() && block.as_slice() == bytes
}

fn is_tree(dest: &MemDest, alloc: Global, files: &[(&str, &str)], is_same: bool) -> bool {
    match tree(alloc, files) {
        Ok(tree) => dest.same(&tree) == is_same,
        Err(_) => false,
    }
}

const HALF: &[(&str, InDest)] = &[("f", InDest::LeavesHalf)];

const WHOLE_TREES: &[(&str, InDest)] = &[
    // The file `staging/v1/f` of three letters is made, and `staging` is moved to `ocfl`.
    ("staging", InDest::MakesDir),
    ("staging/v1", InDest::MakesDir),
    ("staging/v1/f", InDest::MakesFile(&[b"ab", b"c"])),
    ("staging/v1/f", InDest::MayNotMake),
    ("staging", InDest::MayNotMove("staging/v1")),
    ("staging", InDest::Moves("ocfl")),
    ("staging", InDest::Stands(None)),
    ("staging/v1", InDest::Stands(None)),
    ("ocfl/v1", InDest::Stands(Some(Kind::Dir))),
    ("ocfl/v1/f", InDest::Stands(Some(Kind::File))),
    ("ocfl/v1/f/g", InDest::Stands(None)),
    ("", InDest::Stands(Some(Kind::Dir))),
    ("ocfl/v1/f", InDest::Has(b"abc")),
    // What is absent isn't taken away, nor is the top; the rest is, whole.
    ("staging", InDest::Take(Err(TakeFault::Absent))),
    ("", InDest::Take(Err(TakeFault::Absent))),
    ("ocfl/v1/f", InDest::Has(b"abc")),
    ("", InDest::Is(true, &[("ocfl/v1/f", "abc")])),
    ("ocfl", InDest::Take(Ok(()))),
    ("", InDest::Is(false, &[("ocfl/v1/f", "abc")])),
    ("", InDest::Is(true, &[])),
];

const DESTS: &[(&str, &[(&str, InDest)])] = &[
    ("a failing append leaves half of its piece", HALF),
    ("whole trees are moved and taken away", WHOLE_TREES),
];

#[test]
fn destinations_go_as_the_rows_say(rt: HostRuntime) {
    for (what, rows) in DESTS {
        let dest = MemDest::new(rt.alloc());
        none_goes_wrong(&rt, what, find_wrong_row(dest, rt.alloc(), rows));
    }
}

#[test]
fn faults_have_numbers(rt: HostRuntime) {
    let numbers = [
        NameFault::Empty.number(),
        NameFault::TooLong.number(),
        NameFault::NotUtf8.number(),
        NameFault::Forbidden.number(),
        NameFault::Memory.number(),
        TreeFault::Device.number(),
        TreeFault::Memory.number(),
        MemoryFault::Memory.number(),
        ListingFault::NotRising.number(),
        ListingFault::Memory.number(),
        PlantFault::NoParent.number(),
        PlantFault::Taken.number(),
        PlantFault::Memory.number(),
        TakeFault::Absent.number(),
        SwapFault::Absent.number(),
        SwapFault::Memory.number(),
    ];
    assert!(rt;
        numbers == [1, 2, 3, 4, 5, 1, 2, 1, 1, 2, 1, 2, 3, 1, 1, 2],
        "{numbers:?}"
    );
}
