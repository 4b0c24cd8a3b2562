// A row of positions, at whose ends a position comes or goes in one step.
ghost use Rattle.std.specs.Prelude.{◌≡◌, ◌<◌, ◌≤◌, [], ◌∷◌, ◌++◌, IfOk, insert, length};
ghost use Rattle.std.specs.Prelude.{slice_index};
ghost use Rattle.pt_object.specs.SortedIndex.{row_length};

use std::alloc::{AllocError, Global};
use std::collections::VecDeque;
use std::marker::Model;

// How many positions a row has room for: all are full but the last. A new one moves a quarter of
// its row on average, and one of each later row; in one list it would move half of all.
pub(crate) const ROW: usize = 4096;

// Positions in a block of memory for a whole row, seen as their list.
#[derive(Debug, Drop)]
pub(crate) struct IndexBlock {
    positions: VecDeque<usize>,
}

impl Model for IndexBlock {
    ghost use Rattle.std.specs.Prelude.{◌≤◌, List, ℕ};
    ghost use Rattle.std.specs.VecDeque.{deque_capacity};
    ghost use Rattle.pt_object.specs.SortedIndex.{row_length};

    ghost Value = { List ℕ };

    ghost view = { λ r. r.positions.items };

    ghost invariant = { λ r. row_length ≤ deque_capacity r.positions };
}

impl IndexBlock {
    // An empty row.
    pub(crate) fn new(alloc: Global) -> Result<IndexBlock, AllocError>
        ensures { IfOk result (λ ring. ring ≡ []) }
    {
        Ok(IndexBlock {
            positions: VecDeque::with_capacity(alloc, ROW)?,
        })
    }

    // How many positions it has.
    pub(crate) fn len(&self) -> usize
        ensures { result ≡ length self.now }
    {
        self.positions.len()
    }

    // The i-th, from 0 on.
    pub(crate) fn get(&self, i: usize) -> usize
        requires { i < length self.now }
        ensures { result ≡ slice_index self.now i }
    {
        self.positions[i]
    }

    // Takes the last away.
    pub(crate) fn pop(&mut self) -> usize
        requires { 0 < length self.old }
        ensures { self.old ≡ self.new ++ result ∷ [] }
    {
        self.positions.pop_back().unwrap()
    }

    // Puts a position at the i-th place. The nearer end moves, so at the first place nothing else
    // does.
    pub(crate) fn insert(&mut self, i: usize, position: usize)
        requires within { i ≤ length self.old }
        requires room { length self.old < row_length }
        ensures { self.new ≡ insert self.old i position }
    {
        self.positions.insert(i, position).unwrap();
    }

    // Takes all away, and keeps the memory.
    pub(crate) fn clear(&mut self)
        ensures { self.new ≡ [] }
    {
        self.positions.clear();
    }
}
