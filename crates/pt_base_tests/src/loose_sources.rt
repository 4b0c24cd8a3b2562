//! A source in memory that changes while it is read.
use crate::memory_trees::{A_8192, Goes, find_wrong_row, plants};
use crate::tables::none_goes_wrong;
use pt_memory::texts::path;
use pt_memory::{LooseSource, MemSource, SwapFault};
use pt_tree::{Block, Kind, NamePath, Source, TreeFault};
use std::alloc::Global;

// Texts of 8,194 bytes: a block has up to 8,192.
const A_8194: &[u8] = &[b'a'; 8194];

const B_8194: &[u8] = &[b'b'; 8194];

// What is done at a path of a source that may change while it is read, or found there.
enum Loose {
    // Swapping the file's bytes after so many calls is answered so.
    Swap(u64, &'static [u8], Result<(), SwapFault>),
    // Opening it is answered so.
    Open(Result<(), TreeFault>),
    // The next block of the open file is these bytes.
    Gives(&'static [u8]),
    // A look at what stands there is answered so.
    Shows(Result<Option<Kind>, TreeFault>),
    // The source failed so often.
    Failed(u64),
}

impl Goes<Loose> for LooseSource {
    fn goes(&mut self, _: Global, at: &NamePath, what: &Loose) -> bool {
        match what {
            Loose::Swap(calls, bytes, answer) => self.swap_after(*calls, at, bytes) == *answer,
            Loose::Open(answer) => self.open(at) == *answer,
            Loose::Gives(bytes) => gives(self, bytes),
            Loose::Shows(answer) => self.kind(at) == *answer,
            Loose::Failed(failures) => self.failures() == *failures,
        }
    }
}

fn plants_at(source: &mut MemSource, alloc: Global, at: &str, bytes: &[u8]) -> bool {
    match path(alloc, at) {
        Ok(at) => plants(source, &at, bytes),
        Err(_) => false,
    }
}

// Over a source of a file `f` of these bytes; without one, none goes right.
fn find_wrong_in_loose(alloc: Global, bytes: &[u8], rows: &[(&str, Loose)]) -> Option<usize> {
    let mut source = MemSource::new(alloc);
    let is_planted = plants_at(&mut source, alloc, "f", bytes);
    let wrong = find_wrong_row(LooseSource::of(source), alloc, rows);
    if is_planted { wrong } else { Some(0) }
}

fn gives(source: &mut LooseSource, bytes: &[u8]) -> bool {
    let mut block = Block::new();
    source.next(&mut block).is_ok() && block.as_slice() == bytes
}

const SWAPS: &[(&str, Loose)] = &[
    ("g", Loose::Swap(0, b"", Err(SwapFault::Absent))),
    ("f", Loose::Swap(2, b"b", Ok(()))),
    ("g", Loose::Swap(0, b"", Err(SwapFault::Absent))),
];

const GROWS: &[(&str, Loose)] = &[
    ("f", Loose::Swap(2, B_8194, Ok(()))),
    ("f", Loose::Open(Ok(()))),
    ("f", Loose::Gives(A_8192)),
    ("f", Loose::Gives(b"bb")),
];

const SHRINKS: &[(&str, Loose)] = &[
    ("f", Loose::Swap(2, b"b", Ok(()))),
    ("f", Loose::Open(Ok(()))),
    ("f", Loose::Gives(A_8192)),
    ("f", Loose::Gives(b"")),
    ("f", Loose::Open(Ok(()))),
    ("f", Loose::Gives(b"b")),
];

const FAILS: &[(&str, Loose)] = &[
    ("g", Loose::Failed(0)),
    ("g", Loose::Open(Err(TreeFault::Device))),
    ("g", Loose::Failed(1)),
];

// A look is a call, with which the swap comes nearer.
const LOOKED_AT: &[(&str, Loose)] = &[
    ("f", Loose::Swap(2, b"b", Ok(()))),
    ("f", Loose::Shows(Ok(Some(Kind::File)))),
    ("f/g", Loose::Shows(Ok(None))),
    ("f", Loose::Open(Ok(()))),
    ("f", Loose::Gives(b"b")),
    ("f", Loose::Failed(0)),
];

// The bytes of the file `f` before the rows.
const LOOSE: &[(&str, &[u8], &[(&str, Loose)])] = &[
    ("a swap wants a file", b"a", SWAPS),
    ("a file grows while it is read", A_8192, GROWS),
    ("a file shrinks while it is read", A_8194, SHRINKS),
    ("a loose source counts its failures", b"a", FAILS),
    ("a swap counts looks", b"a", LOOKED_AT),
];

#[test]
fn loose_sources_go_as_the_rows_say(rt: HostRuntime) {
    for (what, bytes, rows) in LOOSE {
        none_goes_wrong(&rt, what, find_wrong_in_loose(rt.alloc(), bytes, rows));
    }
}
