// The positions of the items of a list in some order, in rows, so that one more moves at most a row
// and a position of each later row.
ghost use Rattle.std.specs.Prelude.{◌≡◌, ◌<◌, ◌≤◌, [], ◌∷◌, ◌++◌, OnOk, OnErr, insert, length};
ghost use Rattle.std.specs.Prelude.{slice_index};
ghost use Rattle.std.specs.List.{concat};
ghost use Rattle.pt_object.specs.SortedIndex.{AreRows, HasRoom, row_length};

use crate::table::index_block::{IndexBlock, ROW};
use pt_tree::MemoryFault;
use std::alloc::Global;
use std::marker::Model;

// Positions, seen as their list.
#[derive(Debug, Drop)]
pub(crate) struct SortedIndex {
    rows: Vec<IndexBlock>,
}

impl Model for SortedIndex {
    ghost use Rattle.std.specs.Prelude.{List, ℕ};
    ghost use Rattle.std.specs.List.{concat};
    ghost use Rattle.pt_object.specs.SortedIndex.{AreRows};

    ghost Value = { List ℕ };

    ghost view = { λ p. concat p.rows.items };

    ghost invariant = { λ p. AreRows p.rows.items };
}

impl SortedIndex {
    // No positions. It takes no memory.
    pub(crate) fn new(alloc: Global) -> SortedIndex
        ensures { result ≡ [] }
    {
        SortedIndex {
            rows: Vec::new(alloc),
        }
    }

    // The i-th, from 0 on.
    pub(crate) fn get(&self, i: usize) -> usize
        requires { i < length self.now }
        ensures { result ≡ slice_index self.now i }
    {
        self.rows[i / ROW].get(i % ROW)
    }

    // Puts a position at a place. After `Memory` all is as before.
    pub(crate) fn insert(&mut self, place: usize, position: usize) -> Result<(), MemoryFault>
        requires { place ≤ length self.old }
        ensures ok { OnOk result (self.new ≡ insert self.old place position) }
        ensures err { OnErr result (self.new ≡ self.old) }
    {
        make_room(&mut self.rows)?;
        put(&mut self.rows, place, position);
        Ok(())
    }

    // Takes all positions away, and keeps the memory of one row.
    pub(crate) fn clear(&mut self)
        ensures { self.new ≡ [] }
    {
        self.rows.truncate(1);
        if let Some(row) = self.rows.first_mut() {
            row.clear();
        }
    }
}

// Adds an empty row where the last one is full.
fn make_room(rows: &mut Vec<IndexBlock>) -> Result<(), MemoryFault>
    requires { AreRows rows.old.items }
    ensures ok { OnOk result (HasRoom rows.new.items) }
    ensures same { concat rows.new.items ≡ concat rows.old.items }
    ensures rows { AreRows rows.new.items }
{
    let filled = match rows.last() {
        Some(row) => row.len(),
        None => ROW,
    };
    if filled == ROW {
        rows.push(IndexBlock::new(*rows.allocator())?)?;
    }
    Ok(())
}

// Puts a position at a place of its row, and passes the last of each row from there on to the next.
fn put(rows: &mut [IndexBlock], place: usize, position: usize)
    requires rows { AreRows rows.old }
    requires room { HasRoom rows.old }
    requires within { place ≤ length (concat rows.old) }
    ensures items { concat rows.new ≡ insert (concat rows.old) place position }
    ensures rows { AreRows rows.new }
{
    let last = rows.len() - 1;
    let mut at = place % ROW;
    let mut passed = position;
    for i in place / ROW..last {
        passed = pass(&mut rows[i], at, passed);
        at = 0;
    }
    rows[last].insert(at, passed);
}

// Puts a position at a place of a row, and takes the last away.
fn pass(row: &mut IndexBlock, at: usize, position: usize) -> usize
    requires within { at < length row.old }
    requires fits { length row.old ≤ row_length }
    ensures items { row.new ++ result ∷ [] ≡ insert row.old at position }
{
    let last = row.pop();
    row.insert(at, position);
    last
}
