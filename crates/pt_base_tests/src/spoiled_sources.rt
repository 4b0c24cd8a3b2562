//! A source in memory of which something can't be read: what is read beside it, and what fails and
//! is counted.
ghost use Rattle.std.specs.Prelude.{◌≡◌};
ghost use Rattle.pt_memory.specs.MemSourceTells.{source_told};
ghost use Rattle.pt_tree.specs.Source.{CanOpen, CanRead};

use crate::memory_trees::{A_8193, Goes, find_wrong_row, read_file};
use crate::tables::none_goes_wrong;
use pt_memory::texts::{add, path};
use pt_memory::{MemSource, SpoiledSource};
use pt_tree::{Block, Kind, NamePath, Source, TreeFault};
use std::alloc::Global;

// What is done at a path of such a source, or found there.
enum Spoiled {
    // The directory is listed with so many entries; or that fails.
    Lists(Result<usize, TreeFault>),
    // A look at what stands there is answered so.
    Shows(Result<Option<Kind>, TreeFault>),
    // Opening the file is answered so.
    Opens(Result<(), TreeFault>),
    // The file is opened, and each of its next blocks has so many bytes; or reading that block
    // fails.
    Gives(&'static [Result<usize, TreeFault>]),
    // The file is opened and read to its end: it has so many bytes, which takes so many calls of
    // `next`; or that fails.
    IsRead(Result<(usize, usize), TreeFault>),
    // The file of 8,193 bytes is opened; behind its first block the directory at this path can't be
    // listed; then the last byte is read.
    IsReadOnPast(&'static str),
    // The source failed so often.
    Failed(u64),
}

impl Goes<Spoiled> for SpoiledSource {
    fn goes(&mut self, alloc: Global, at: &NamePath, what: &Spoiled) -> bool {
        match what {
            Spoiled::Lists(answer) => lists(self, at, *answer),
            Spoiled::Shows(answer) => self.kind(at) == *answer,
            Spoiled::Opens(answer) => opens(self, at, *answer),
            Spoiled::Gives(blocks) => self.source().has_file(at) && gives(self, at, blocks),
            Spoiled::IsRead(answer) => is_read(self, at, *answer),
            Spoiled::IsReadOnPast(dir) => is_read_on_past(self, alloc, at, dir),
            Spoiled::Failed(failures) => self.failures() == *failures,
        }
    }
}

fn lists(source: &mut SpoiledSource, dir: &NamePath, answer: Result<usize, TreeFault>) -> bool
    ensures { source_told source.new.source ≡ source_told source.old.source }
{
    if !source.source().has_dir(dir) {
        return false;
    }
    match source.list(dir) {
        Ok(listing) => answer == Ok(listing.len()),
        Err(fault) => answer == Err(fault),
    }
}

fn opens(source: &mut SpoiledSource, file: &NamePath, answer: Result<(), TreeFault>) -> bool {
    source.source().has_file(file) && source.open(file) == answer
}

// The next block of the open file has so many bytes; or reading it fails.
fn gives_next(source: &mut SpoiledSource, answer: Result<usize, TreeFault>) -> bool
    requires { CanRead (source_told source.old.source) }
    ensures { CanRead (source_told source.new.source) }
{
    let mut block = Block::new();
    match source.next(&mut block) {
        Ok(()) => answer == Ok(block.len()),
        Err(fault) => answer == Err(fault),
    }
}

#[tactic(auto, using(pt_tree::proofs::Held::reading))]
fn gives(source: &mut SpoiledSource, file: &NamePath, answers: &[Result<usize, TreeFault>]) -> bool
    requires { CanOpen (source_told source.old.source) file.now }
{
    let Ok(()) = source.open(file) else {
        return false;
    };
    for answer in answers {
        if !gives_next(source, *answer) {
            return false;
        }
    }
    true
}

fn is_read(
    source: &mut SpoiledSource,
    file: &NamePath,
    answer: Result<(usize, usize), TreeFault>,
) -> bool {
    source.source().has_file(file) && read_file(source, file) == answer
}

fn is_read_on_past(source: &mut SpoiledSource, alloc: Global, file: &NamePath, dir: &str) -> bool {
    match path(alloc, dir) {
        Ok(dir) => source.source().has_file(file) && reads_on_past(source, file, &dir),
        Err(_) => false,
    }
}

#[tactic(auto, using(pt_tree::proofs::Held::reading))]
fn reads_on_past(source: &mut SpoiledSource, file: &NamePath, dir: &NamePath) -> bool
    requires { CanOpen (source_told source.old.source) file.now }
{
    let Ok(()) = source.open(file) else {
        return false;
    };
    gives_next(source, Ok(8192))
        && lists(source, dir, Err(TreeFault::Device))
        && gives_next(source, Ok(1))
}

// The files of the tree, each with its bytes. Beside them it has the file `l`, of 8,193 bytes.
const FILES: &[(&str, &str)] = &[
    ("d/f", "abc"),
    ("d/ff", "m"),
    ("d/g", "de"),
    ("e/h", "k"),
    ("i", ""),
];

// Paths at which nothing can be read. At the last one nothing stands.
const PATHS: &[&str] = &["d/f", "e", "x"];

// The tree, with this fuse, of which nothing can be read at these paths.
fn spoiled_tree(
    alloc: Global,
    fuse: Option<u64>,
    spoiled: &[&str],
) -> Result<SpoiledSource, TreeFault> {
    let mut source = MemSource::new(alloc);
    add(alloc, &mut source, FILES)?;
    let Ok(()) = source.plant_file(&path(alloc, "l")?, A_8193) else {
        return Err(TreeFault::Memory);
    };
    source.fuse(fuse);
    let mut paths = Vec::new(alloc);
    for at in spoiled {
        let Ok(()) = paths.push(path(alloc, at)?) else {
            return Err(TreeFault::Memory);
        };
    }
    Ok(SpoiledSource::new(source, paths))
}

// Rows over such a tree: what they tell, its fuse, its paths, and what is done.
struct Table(
    &'static str,
    Option<u64>,
    &'static [&'static str],
    &'static [(&'static str, Spoiled)],
);

// Without a tree, none goes right.
fn find_wrong(alloc: Global, table: &Table) -> Option<usize> {
    let Table(_, fuse, spoiled, rows) = table;
    match spoiled_tree(alloc, *fuse, spoiled) {
        Ok(source) => find_wrong_row(source, alloc, rows),
        Err(_) => Some(0),
    }
}

const REFUSED: &[(&str, Spoiled)] = &[
    ("", Spoiled::Failed(0)),
    // The file is opened as any other; each call that reads it fails.
    ("d/f", Spoiled::Opens(Ok(()))),
    ("", Spoiled::Failed(0)),
    ("d/f", Spoiled::IsRead(Err(TreeFault::Device))),
    ("", Spoiled::Failed(1)),
    ("e", Spoiled::Lists(Err(TreeFault::Device))),
    ("", Spoiled::Failed(2)),
    (
        "d/f",
        Spoiled::Gives(&[Err(TreeFault::Device), Err(TreeFault::Device)]),
    ),
    ("", Spoiled::Failed(4)),
];

const BESIDE: &[(&str, Spoiled)] = &[
    // The top has `d`, `e`, `i` and `l`.
    ("", Spoiled::Lists(Ok(4))),
    ("d", Spoiled::Lists(Ok(3))),
    ("d/g", Spoiled::IsRead(Ok((2, 2)))),
    ("i", Spoiled::IsRead(Ok((0, 1)))),
    ("l", Spoiled::Gives(&[Ok(8192), Ok(1), Ok(0), Ok(0)])),
    // Its name only begins as that of the file that can't be read.
    ("d/ff", Spoiled::IsRead(Ok((1, 2)))),
    // What is below a directory that can't be listed can be read.
    ("e/h", Spoiled::IsRead(Ok((1, 2)))),
    ("", Spoiled::Failed(0)),
];

const ONE_BY_ONE: &[(&str, Spoiled)] = &[
    // Whether a file can be read is asked anew where one is opened.
    ("d/g", Spoiled::Opens(Ok(()))),
    ("d/f", Spoiled::Gives(&[Err(TreeFault::Device)])),
    ("d/g", Spoiled::IsRead(Ok((2, 2)))),
    ("d/f", Spoiled::Gives(&[Err(TreeFault::Device)])),
    ("", Spoiled::Failed(2)),
    // A directory that can't be listed changes nothing of the open file.
    ("l", Spoiled::IsReadOnPast("e")),
    ("", Spoiled::Failed(3)),
];

// Entries of a directory that can't be listed can't be looked at, whatever stands there; what
// itself can't be read can.
const LOOKED_AT: &[(&str, Spoiled)] = &[
    ("e/h", Spoiled::Shows(Err(TreeFault::Device))),
    ("e/i", Spoiled::Shows(Err(TreeFault::Device))),
    ("x/y", Spoiled::Shows(Err(TreeFault::Device))),
    ("", Spoiled::Failed(3)),
    ("e", Spoiled::Shows(Ok(Some(Kind::Dir)))),
    ("d/f", Spoiled::Shows(Ok(Some(Kind::File)))),
    ("x", Spoiled::Shows(Ok(None))),
    ("", Spoiled::Shows(Ok(Some(Kind::Dir)))),
    ("", Spoiled::Failed(3)),
];

// A large file fails at its first block, and not only at its end.
const LARGE: &[(&str, Spoiled)] = &[
    ("l", Spoiled::Opens(Ok(()))),
    ("", Spoiled::Failed(0)),
    (
        "l",
        Spoiled::Gives(&[Err(TreeFault::Device), Err(TreeFault::Device)]),
    ),
    ("", Spoiled::Failed(2)),
    ("i", Spoiled::IsRead(Ok((0, 1)))),
];

// The top alone can't be listed; what is below it can be read.
const TOP: &[(&str, Spoiled)] = &[
    ("", Spoiled::Lists(Err(TreeFault::Device))),
    ("d", Spoiled::Shows(Err(TreeFault::Device))),
    ("", Spoiled::Failed(2)),
    ("d/f", Spoiled::Shows(Ok(Some(Kind::File)))),
    ("d", Spoiled::Lists(Ok(3))),
    ("d/f", Spoiled::IsRead(Ok((3, 2)))),
    ("i", Spoiled::IsRead(Ok((0, 1)))),
    ("", Spoiled::Failed(2)),
];

const FUSED: &[(&str, Spoiled)] = &[
    // Two calls use the fuse up, and one of them is refused; the third is refused by the fuse.
    ("e", Spoiled::Lists(Err(TreeFault::Device))),
    ("d", Spoiled::Lists(Ok(3))),
    ("d", Spoiled::Lists(Err(TreeFault::Device))),
    ("", Spoiled::Failed(2)),
    // A call that is refused by both is one failure.
    ("e", Spoiled::Lists(Err(TreeFault::Device))),
    ("", Spoiled::Failed(3)),
];

const FUSED_LOOKS: &[(&str, Spoiled)] = &[
    // A look that fails and one that goes well use the fuse up.
    ("e/h", Spoiled::Shows(Err(TreeFault::Device))),
    ("d/f", Spoiled::Shows(Ok(Some(Kind::File)))),
    ("d/f", Spoiled::Shows(Err(TreeFault::Device))),
    ("e/h", Spoiled::Shows(Err(TreeFault::Device))),
    ("", Spoiled::Failed(3)),
];

const FUSED_READING: &[(&str, Spoiled)] = &[
    // Opening the file and a block that fails use the fuse up; the second block is refused by both.
    (
        "d/f",
        Spoiled::Gives(&[Err(TreeFault::Device), Err(TreeFault::Device)]),
    ),
    ("", Spoiled::Failed(2)),
    ("d/f", Spoiled::Opens(Err(TreeFault::Device))),
    ("", Spoiled::Failed(3)),
];

const TABLES: &[Table] = &[
    Table(
        "what can't be read fails, and is counted",
        None,
        PATHS,
        REFUSED,
    ),
    Table("what is beside it is read", None, PATHS, BESIDE),
    Table("files are opened one by one", None, PATHS, ONE_BY_ONE),
    Table("entries are looked at", None, PATHS, LOOKED_AT),
    Table("a large file fails at once", None, &["l"], LARGE),
    Table("the top can't be listed", None, &[""], TOP),
    Table("a listing that fails uses the fuse", Some(2), PATHS, FUSED),
    Table(
        "a look that fails uses the fuse",
        Some(2),
        PATHS,
        FUSED_LOOKS,
    ),
    Table(
        "a block that fails uses the fuse",
        Some(2),
        PATHS,
        FUSED_READING,
    ),
];

#[test]
fn spoiled_sources_go_as_the_rows_say(rt: HostRuntime) {
    for table in TABLES {
        none_goes_wrong(&rt, table.0, find_wrong(rt.alloc(), table));
    }
}
