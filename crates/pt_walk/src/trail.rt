ghost use Rattle.std.specs.Prelude.{◌≡◌, ◌==◌, ◌++◌, ◌<◌, ◌≤◌, ◌*◌, ◌-◌, ◌^◌, [], Some, IfOk};
ghost use Rattle.std.specs.Prelude.{IsTrue, OnOk, OnErr, IsSome, cond, length, reverse, take};
ghost use Rattle.std.specs.Option.{option_copied};
ghost use Rattle.pt_tree.specs.Listing.{items_lent};
ghost use Rattle.pt_walk.specs.Sites.{at_of};
ghost use Rattle.pt_walk.specs.Trail.{advanced, can_enter, current_entry, entered, entries_held};
ghost use Rattle.pt_walk.specs.Trail.{has_place};
ghost use Rattle.pt_walk.specs.Trail.{innermost_listing, is_trail, names_to, parent, sought};
ghost use Rattle.pt_walk.specs.Trail.{trail_path};
ghost use Rattle.pt_walk.specs.declared.site.At.TheVariants as at;

use crate::At;
use crate::frame::Frame;
use pt_tree::{Kind, Listing, MemoryFault, Name, NamePath};
use std::alloc::Global;
use std::marker::Model;

/// The listings on the way to where a walk stands, each with the place reached in it, from 0 to its
/// length. It is seen as their list, the innermost first. The place of each but the innermost is at
/// the directory that was entered from it.
#[derive(Debug, Drop)]
pub struct Trail {
    // The innermost is the last.
    frames: Vec<Frame>,
}

impl Model for Trail {
    ghost use Rattle.std.specs.Prelude.{◌≡◌, List, reverse, true};
    ghost use Rattle.pt_walk.specs.declared.frame.Frame.{Frame};
    ghost use Rattle.pt_walk.specs.Trail.{is_trail};

    ghost Value = { List Frame };

    ghost view = { λ t. reverse t.frames.items };

    ghost invariant = { λ t. is_trail (reverse t.frames.items) ≡ true };
}

impl Trail {
    /// A trail of no listings.
    pub fn new(alloc: Global) -> Trail
        ensures { result ≡ [] }
    {
        Trail {
            frames: Vec::new(alloc),
        }
    }

    /// Enters a listing, at its place 0. There is none yet, or the innermost place is at a
    /// directory. After `Memory` the trail is as before.
    pub fn enter(&mut self, listing: Listing) -> Result<(), MemoryFault>
        requires { IsTrue (can_enter self.old) }
        ensures ok { OnOk result (self.new ≡ entered listing self.old) }
        ensures err { OnErr result (self.new ≡ self.old) }
    {
        self.frames.push(Frame { listing, place: 0 })?;
        Ok(())
    }

    /// Moves the innermost place: there is an innermost listing, and the place is one of it or its
    /// end.
    pub fn seek(&mut self, place: usize)
        requires { IsTrue (has_place place self.old) }
        ensures { self.new ≡ sought place self.old }
    {
        let last = self.frames.len() - 1;
        self.frames[last].place = place;
    }

    /// Moves the innermost place to the next entry, or to the end: it is at an entry.
    pub fn advance(&mut self)
        requires { IsSome (current_entry self.old) }
        ensures { self.new ≡ advanced self.old }
    {
        let last = self.frames.len() - 1;
        let frame = &mut self.frames[last];
        prove!(frame.place < frame.listing.len());
        frame.place += 1;
    }

    /// Leaves the innermost listing, of which there is one. The place of the one around it stays at
    /// the directory that is left.
    pub fn leave(&mut self)
        requires { 0 < length self.old }
        ensures { self.new ≡ parent self.old }
    {
        let _ = self.frames.pop();
    }

    /// The entry at the innermost place; None at the end of the listing, and where there are no
    /// listings.
    pub fn current(&self) -> Option<(&Name, Kind)>
        ensures { items_lent result ≡ current_entry self.now }
    {
        let frame = self.frames.last()?;
        frame.listing.get(frame.place)
    }

    /// The innermost listing; None where there are no listings.
    pub fn innermost(&self) -> Option<&Listing>
        ensures { option_copied result ≡ innermost_listing self.now }
    {
        let frame = self.frames.last()?;
        Some(&frame.listing)
    }

    /// How many listings there are.
    pub fn len(&self) -> usize
        ensures len { result ≡ length self.now }
        ensures trail { IsTrue (is_trail self.now) }
    {
        self.frames.len()
    }

    /// The path from the outermost listing to the innermost: the names at the places of all but the
    /// innermost. `Memory` where a growth was refused.
    pub fn path(&self) -> Result<NamePath, MemoryFault>
        ensures { IfOk result (λ path. path ≡ trail_path self.now) }
    {
        // There is room for the entry and for what stands above the trail too.
        let room = self.frames.len().saturating_add(1);
        self.path_below(NamePath::with_room(*self.frames.allocator(), room)?)
    }

    /// That path behind another: so no name has to move to make room in front.
    /// `Memory` where a growth was refused.
    pub fn path_below(&self, above: NamePath) -> Result<NamePath, MemoryFault>
        ensures { IfOk result (λ path. path ≡ above ++ trail_path self.now) }
    {
        let outer = self.frames.len().saturating_sub(1);
        with_names(above, &self.frames[..outer])
    }

    /// The names at the places of so many of the innermost listings, or of all where there are
    /// fewer, the innermost last: the end of the path to the entry at the trail's place, made
    /// without the names in front of it. `Memory` where a growth was refused.
    pub fn inner_path(&self, listings: usize) -> Result<NamePath, MemoryFault>
        ensures { IfOk result (λ path. path ≡ names_to (take listings self.now)) }
    {
        let outer = self.frames.len().saturating_sub(listings);
        let inner = &self.frames[outer..];
        let path = NamePath::with_room(*self.frames.allocator(), inner.len())?;
        with_names(path, inner)
    }

    /// Where the directory of the innermost listing stands as a site, by the last name of `path`,
    /// which isn't made: it is the one at the place of the listing around it; `Root` where none is
    /// around. It takes no memory.
    pub fn site_position(&self) -> At
        ensures { result ≡ at_of (trail_path self.now) }
    {
        let count = self.frames.len();
        if count < 2 {
            return At::Root;
        }
        let around = &self.frames[count - 2];
        match around.listing.get(around.place) {
            Some((name, _)) => at_name(name),
            None => At::Root,
        }
    }

    /// How many entries the listings have together.
    pub fn records(&self) -> u128
        ensures value { result ≡ entries_held self.now }
        ensures few { result ≤ (2 ^ 64 - 1) * (2 ^ 64 - 1) }
    {
        let mut total = 0;
        for frame in &self.frames {
            total += frame.listing.len() as u128;
        }
        total
    }
}

// A path with the names at the places of these listings behind it, of which the innermost is the
// last.
fn with_names(above: NamePath, frames: &[Frame]) -> Result<NamePath, MemoryFault>
    ensures { IfOk result (λ path. path ≡ above ++ names_to (reverse frames.now)) }
{
    let mut path = above;
    for frame in frames {
        frame.add_name(&mut path)?;
    }
    Ok(path)
}

// Where a site with this name stands.
fn at_name(name: &Name) -> At
    ensures { result ≡ cond (length name.now == 1) at.Last at.Pair }
{
    if name.bytes().len() == 1 {
        At::Last
    } else {
        At::Pair
    }
}
