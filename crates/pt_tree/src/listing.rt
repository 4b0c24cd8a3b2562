ghost use Rattle.std.specs.Prelude.{◌≡◌, ◌==◌, ◌++◌, [], ◌∷◌, IfOk, IsTrue, OnErr, length};
ghost use Rattle.std.specs.Prelude.{slice_get};
ghost use Rattle.pt_tree.specs.Listing.{can_follow as can_follow_items, items_lent, left_in};
ghost use Rattle.pt_tree.specs.Listing.{listing_refusal, listing_number, names_rise};
ghost use Rattle.pt_tree.specs.Refusal.{Answers};

use crate::{Kind, MemoryFault, Name};
use std::alloc::Global;
use std::marker::Model;
use thiserror::Error;

/// Why an entry isn't added to a listing.
#[derive(Clone, Copy, Debug, PartialEq, Eq, Error)]
pub enum ListingFault {
    /// The name doesn't come after the last one in the order of their bytes.
    #[error("the names of the listing do not rise")]
    NotRising,
    /// A growth was refused.
    #[error("out of memory")]
    Memory,
}

impl ListingFault {
    /// The fault's number: 1 `NotRising`, 2 `Memory`.
    pub fn number(&self) -> u8
        ensures { result ≡ listing_number self.now }
    {
        match self {
            ListingFault::NotRising => 1,
            ListingFault::Memory => 2,
        }
    }
}

/// What a directory holds, seen as the list of its names and kinds. The names rise in the order of
/// their bytes.
#[derive(Debug, Drop)]
pub struct Listing {
    items: Vec<(Name, Kind)>,
}

impl Model for Listing {
    ghost use Rattle.std.specs.Prelude.{◌≡◌, List, true};
    ghost use Rattle.pt_tree.specs.Listing.{Item, names_rise};

    ghost Value = { List Item };

    ghost view = { λ l. l.items.items };

    ghost invariant = { λ l. names_rise l.items.items ≡ true };
}

impl Listing {
    /// A listing of nothing.
    pub fn new(alloc: Global) -> Listing
        ensures { result ≡ [] }
    {
        Listing {
            items: Vec::new(alloc),
        }
    }

    /// A listing of nothing, with room for so many entries. `Memory` where that was refused.
    pub fn with_room(alloc: Global, entries: usize) -> Result<Listing, MemoryFault>
        ensures { IfOk result (λ listing. listing ≡ []) }
    {
        Ok(Listing {
            items: Vec::with_capacity(alloc, entries)?,
        })
    }

    /// Adds an entry at the end. `NotRising` where the name doesn't come after the last one in the
    /// order of their bytes; `Memory` where a growth was refused. After either the listing is as
    /// before.
    pub fn add(&mut self, name: Name, kind: Kind) -> Result<(), ListingFault>
        ensures answer { Answers (listing_refusal self.old name) ListingFault.Memory result
            (λ _. self.new ≡ self.old ++ (name, kind) ∷ []) }
        ensures err { OnErr result (self.new ≡ self.old) }
    {
        if !can_follow(&self.items, &name) {
            return Err(ListingFault::NotRising);
        }
        match self.items.push((name, kind)) {
            Ok(()) => Ok(()),
            Err(_) => Err(ListingFault::Memory),
        }
    }

    /// Takes away the entries with these names. It takes no memory.
    #[tactic(auto, using(crate::proofs::Leaving::leaving))]
    pub fn leave_out(&mut self, names: &[Name])
        ensures { self.new ≡ left_in names.now self.old }
    {
        self.items.retain(|(name, _)| !names.contains(name));
    }

    /// How many entries it has.
    pub fn len(&self) -> usize
        ensures len { result ≡ length self.now }
        ensures rise { IsTrue (names_rise self.now) }
    {
        self.items.len()
    }

    /// Whether it has none.
    pub fn is_empty(&self) -> bool
        ensures { result ≡ (length self.now == 0) }
    {
        self.items.is_empty()
    }

    /// The i-th entry, from 0 on; None from the length on.
    pub fn get(&self, i: usize) -> Option<(&Name, Kind)>
        ensures { items_lent result ≡ slice_get self.now i }
    {
        let (name, kind) = self.items.get(i)?;
        Some((name, *kind))
    }
}

// Whether an entry of this name may come next.
fn can_follow(items: &[(Name, Kind)], name: &Name) -> bool
    ensures { result ≡ can_follow_items items.now name.now }
{
    match items.last() {
        None => true,
        Some((last, _)) => last < name,
    }
}
