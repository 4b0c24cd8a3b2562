//! The entries of an object that stands which weren't met yet.
ghost use Rattle.std.specs.Prelude.{◌≡◌, ℕ, [], IfOk, IfSome, IsSome, OnErr, OnOk, ◌∷◌, ◌++◌};
ghost use Rattle.std.specs.Prelude.{MatchOption};
ghost use Rattle.std.specs.Global.{Vec};
ghost use Rattle.pt_tree.specs.Path.{joined};
ghost use Rattle.pt_tree.specs.Pieces.{names_in};
ghost use Rattle.pt_tree.specs.declared.kind.Kind.{Kind};
ghost use Rattle.pt_compare.specs.Entries.{Noted, kind_noted, with_entry, without};
ghost use Rattle.pt_compare.specs.Marks.{marks_of, with_listed, with_mark, without_mark};

use pt_tree::{Kind, Listing, MemoryFault, Name, NamePath};
use std::alloc::Global;
use std::collections::BTreeMap;
use std::marker::Model;

/// Entries by the texts of their paths, seen as the list of these and of the paths, which aren't
/// held beside them.
#[derive(Drop)]
pub(crate) struct Entries {
    alloc: Global,
    by_text: BTreeMap<Vec<u8>, Kind>,
}

impl Model for Entries {
    ghost use Rattle.pt_compare.specs.Entries.{Noted, noted_of};

    ghost Value = { Noted };

    ghost view = { λ e. noted_of e.by_text.entries };
}

impl Entries {
    /// None.
    pub(crate) fn new(alloc: Global) -> Entries
        ensures { result ≡ [] }
    {
        Entries {
            alloc,
            by_text: BTreeMap::new(alloc),
        }
    }

    /// Notes an entry. After `Memory` they are as before.
    pub(crate) fn add(&mut self, path: &NamePath, kind: Kind) -> Result<(), MemoryFault>
        ensures noted { OnOk result ((text : Vec ℕ) × (text.items ≡ joined path.now)
            × (self.new ≡ with_entry text (path.now, kind) self.old)) }
        ensures same { OnErr result (self.new ≡ self.old) }
        ensures marks { OnOk result (marks_of self.new
            ≡ with_mark path.now kind (marks_of self.old)) }
    {
        let text = path.join()?;
        let Ok(_) = self.by_text.insert(text, kind) else {
            return Err(MemoryFault::Memory);
        };
        Ok(())
    }

    /// Takes out the entry of a path, if there is one, and gives its kind.
    pub(crate) fn take(&mut self, path: &NamePath) -> Result<Option<Kind>, MemoryFault>
        ensures kind { IfOk result (λ here. here ≡ kind_noted path.now self.old) }
        ensures left { OnOk result (self.new ≡ without path.now self.old) }
        ensures same { OnErr result (self.new ≡ self.old) }
        ensures marks { OnOk result (marks_of self.new
            ≡ without_mark path.now (marks_of self.old)) }
    {
        let text = path.join()?;
        Ok(self.by_text.remove(text.as_slice()))
    }

    /// The path of the first, by the order of their texts; None where there is none.
    pub(crate) fn first(&self) -> Result<Option<NamePath>, MemoryFault>
        ensures first { IfOk result (λ first. MatchOption first (self.now ≡ [])
            (λ path. (text : Vec ℕ) × (kind : Kind) × (later : Noted)
            × (self.now ≡ (text, (path, kind)) ∷ later))) }
        ensures noted { IfOk result (λ first. IfSome first
            (λ path. IsSome (marks_of self.now path))) }
    {
        match self.by_text.first_key_value() {
            Some((text, _)) => Ok(Some(path_of(self.alloc, text.as_slice())?)),
            None => Ok(None),
        }
    }
}

// The path of the text of one; no other text is held.
fn path_of(alloc: Global, text: &[u8]) -> Result<NamePath, MemoryFault>
    ensures { IfOk result (λ path. path ≡ names_in text.now) }
{
    NamePath::of_text(alloc, text).map_err(|_| MemoryFault::Memory)
}

/// Notes the entries that the directory at a path lists.
pub(crate) fn note(
    entries: &mut Entries,
    path: &NamePath,
    listing: &Listing,
) -> Result<(), MemoryFault>
    ensures { OnOk result (marks_of entries.new
        ≡ with_listed path.now listing.now (marks_of entries.old)) }
{
    for i in 0..listing.len() {
        let Some((name, kind)) = listing.get(i) else {
            unreachable!()
        };
        note_entry(entries, path, name, kind)?;
    }
    Ok(())
}

// Notes the entry of this name and kind in the directory at a path.
fn note_entry(
    entries: &mut Entries,
    path: &NamePath,
    name: &Name,
    kind: Kind,
) -> Result<(), MemoryFault>
    ensures { OnOk result (marks_of entries.new
        ≡ with_mark (path.now ++ name.now ∷ []) kind (marks_of entries.old)) }
{
    entries.add(&path.child(name)?, kind)
}
