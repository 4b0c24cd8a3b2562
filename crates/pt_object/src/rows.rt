ghost use Rattle.std.specs.Prelude.{◌≡◌, ◌==◌, ◌++◌, [], ◌∷◌, OnOk, OnErr, length as list_length};
ghost use Rattle.std.specs.Prelude.{slice_get};
ghost use Rattle.std.specs.Option.{option_copied};
ghost use Rattle.pt_object.specs.Rows.{row_of};

use crate::Digest;
use pt_tree::{MemoryFault, NamePath};
use std::alloc::Global;
use std::marker::Model;

/// A file of an object: its logical path, its digest and its length in bytes.
#[derive(Debug, Drop)]
pub struct Row {
    /// Its logical path.
    pub path: NamePath,
    /// The digest of its bytes.
    pub digest: Digest,
    /// How many bytes it has.
    pub length: u64,
}

/// The files of one object, seen as the list of their rows.
#[derive(Debug, Drop)]
pub struct Rows {
    rows: Vec<Row>,
}

impl Model for Rows {
    ghost use Rattle.std.specs.Prelude.{List};
    ghost use Rattle.pt_object.specs.declared.rows.Row.{Row};

    ghost Value = { List Row };

    ghost view = { λ r. r.rows.items };
}

impl Rows {
    /// No rows. It takes no memory.
    pub fn new(alloc: Global) -> Rows
        ensures { result ≡ [] }
    {
        Rows {
            rows: Vec::new(alloc),
        }
    }

    /// Adds a row at the end, with a copy of the path. After `Memory` the rows are as before.
    pub fn push(&mut self, path: &NamePath, digest: &Digest, length: u64) -> Result<(), MemoryFault>
        ensures ok { OnOk result (self.new ≡ self.old ++ row_of path.now digest.now length ∷ []) }
        ensures err { OnErr result (self.new ≡ self.old) }
    {
        let path = path.copy()?;
        self.rows.push(Row {
            path,
            digest: *digest,
            length,
        })?;
        Ok(())
    }

    /// Takes all rows away. It takes no memory.
    pub fn clear(&mut self)
        ensures { self.new ≡ [] }
    {
        self.rows.clear();
    }

    /// How many rows there are.
    pub fn len(&self) -> usize
        ensures { result ≡ list_length self.now }
    {
        self.rows.len()
    }

    /// Whether there are none.
    pub fn is_empty(&self) -> bool
        ensures { result ≡ (list_length self.now == 0) }
    {
        self.rows.is_empty()
    }

    /// The i-th row, from 0 on; None from the length on.
    pub fn get(&self, i: usize) -> Option<&Row>
        ensures { option_copied result ≡ slice_get self.now i }
    {
        self.rows.get(i)
    }

    /// The rows in their order.
    pub fn as_slice(&self) -> &[Row]
        ensures { result.now ≡ self.now }
    {
        &self.rows
    }
}
