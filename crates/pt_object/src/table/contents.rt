ghost use Rattle.std.specs.Prelude.{◌≡◌, ◌==◌, ◌<◌, [], false, IfOk, IsTrue, MatchOption, OnOk};
ghost use Rattle.std.specs.Prelude.{OnErr, length, not, slice_get};
ghost use Rattle.std.specs.Option.{option_copied};
ghost use Rattle.pt_object.specs.Contents.{DigestsDiffer, first_path, is_noted, noted};
ghost use Rattle.pt_object.specs.Index.{IsAt, IsIndex, IsWithinBinaryDigits};

use crate::Digest;
use crate::table::index::search;
use crate::table::sorted_index::SortedIndex;
use pt_tree::{MemoryFault, NamePath};
use std::alloc::Global;
use std::fmt;
use std::marker::Model;

/// A digest, with the path of the first file that has it.
#[derive(Debug, Drop)]
pub struct Content {
    /// The digest.
    pub digest: Digest,
    /// The path of the first file that has it.
    pub path: NamePath,
}

/// The distinct contents of an object, seen as their list in the order in which they were noted.
#[derive(Drop)]
pub struct Contents {
    items: Vec<Content>,
    // The keys of the items' digests, in the order of the items.
    keys: Vec<u32>,
    // The positions of the items, in the order of their digests.
    index: SortedIndex,
}

// The keys, which the items tell, aren't shown.
impl fmt::Debug for Contents {
    fn fmt<W: fmt::Write>(&self, f: &mut fmt::Formatter<W>) -> fmt::Result {
        f.debug_struct("Contents")
            .field("items", &self.items)
            .field("index", &self.index)
            .finish()
    }
}

impl Model for Contents {
    ghost use Rattle.std.specs.Prelude.{List};
    ghost use Rattle.pt_object.specs.declared.table.contents.Content.{Content};
    ghost use Rattle.pt_object.specs.Keys.{IsKeyedIndex};

    ghost Value = { List Content };

    ghost view = { λ c. c.items.items };

    ghost invariant = { λ c. IsKeyedIndex c.items.items c.keys.items c.index };
}

impl Contents {
    /// No contents. It takes no memory.
    pub fn new(alloc: Global) -> Contents
        ensures { result ≡ [] }
    {
        Contents {
            items: Vec::new(alloc),
            keys: Vec::new(alloc),
            index: SortedIndex::new(alloc),
        }
    }

    /// Notes a file: true where its digest is new, which is then added at the end with a copy of
    /// the path; false where an item has the digest already. After `Memory`, which only a new
    /// digest can meet, all is as before.
    pub fn note(&mut self, digest: &Digest, path: &NamePath) -> Result<bool, MemoryFault>
        ensures answer { IfOk result (λ is_new. is_new ≡ not (is_noted self.old digest.now)) }
        ensures ok { OnOk result (self.new ≡ noted self.old digest.now path.now) }
        ensures known { IsTrue (is_noted self.old digest.now) → result ≡ Ok false }
        ensures err { OnErr result (self.new ≡ self.old) }
    {
        let place = match search(&self.items, &self.keys, &self.index, digest).found {
            Ok(_) => return Ok(false),
            Err(place) => place,
        };
        self.items.reserve(1)?;
        self.keys.reserve(1)?;
        let path = path.copy()?;
        self.index.insert(place, self.items.len())?;
        self.keys.push(digest.key()).unwrap();
        self.items
            .push(Content {
                digest: *digest,
                path,
            })
            .unwrap();
        Ok(true)
    }

    /// The path of the first file that was noted with the digest. It takes no memory.
    pub fn first(&self, digest: &Digest) -> Option<&NamePath>
        ensures { option_copied result ≡ first_path self.now digest.now }
    {
        self.first_counted(digest).0
    }

    /// What `first` gives, and how many digests were compared for it: at most as many as the number
    /// of items has binary digits, and none only where there are no items.
    pub fn first_counted(&self, digest: &Digest) -> (Option<&NamePath>, u32)
        ensures path { option_copied result.0 ≡ first_path self.now digest.now }
        ensures few { IsWithinBinaryDigits result.1 (length self.now) }
        ensures some { 0 < length self.now → 0 < result.1 }
    {
        let searched = search(&self.items, &self.keys, &self.index, digest);
        let path = match searched.found {
            Ok(position) => Some(&self.items[position].path),
            Err(_) => None,
        };
        (path, searched.comparisons)
    }

    /// Takes all contents away. It takes no memory.
    pub fn clear(&mut self)
        ensures { self.new ≡ [] }
    {
        self.items.clear();
        self.keys.clear();
        self.index.clear();
    }

    /// How many there are. No two have one digest.
    pub fn len(&self) -> usize
        ensures len { result ≡ length self.now }
        ensures differ { DigestsDiffer self.now }
    {
        self.items.len()
    }

    /// Whether there are none.
    pub fn is_empty(&self) -> bool
        ensures { result ≡ (length self.now == 0) }
    {
        self.items.is_empty()
    }

    /// The i-th, from 0 on; None from the length on.
    pub fn get(&self, i: usize) -> Option<&Content>
        ensures { option_copied result ≡ slice_get self.now i }
    {
        self.items.get(i)
    }

    pub(crate) fn as_slice(&self) -> &[Content]
        ensures { result.now ≡ self.now }
    {
        &self.items
    }

    // The positions of the items in the order of their digests.
    pub(crate) fn index(&self) -> &SortedIndex
        ensures { IsIndex self.now result.now }
    {
        &self.index
    }

    // The position of the item with the digest, which may well be this one: it is looked at first.
    pub(crate) fn position_near(&self, next: usize, digest: &Digest) -> Option<usize>
        ensures { MatchOption result
            (is_noted self.now digest.now ≡ false) (IsAt self.now digest.now) }
    {
        if let Some(content) = self.get(next)
            && content.digest == *digest
        {
            return Some(next);
        }
        self.position(digest)
    }

    // The position of the item with the digest.
    pub(crate) fn position(&self, digest: &Digest) -> Option<usize>
        ensures { MatchOption result
            (is_noted self.now digest.now ≡ false) (IsAt self.now digest.now) }
    {
        search(&self.items, &self.keys, &self.index, digest)
            .found
            .ok()
    }
}
