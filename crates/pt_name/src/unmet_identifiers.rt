//! The identifiers of a list of which no object was met so far.
#![tactic(auto)]

ghost use Rattle.std.specs.Option.{option_map};
ghost use Rattle.std.specs.Prelude.{◌≡◌, [], IfOk, length, map};
ghost use Rattle.std.specs.String.{string_bytes};
ghost use Rattle.pt_name.specs.Unmet.{may_meet, unmet_by, unmet_there, without};

use crate::{IdentifierList, Share};
use pt_tree::MemoryFault;
use std::alloc::{AllocError, Global};
use std::marker::Model;
use std::rc::Rc;

/// The identifiers of a share's list of which a run met no object so far, without those that are
/// another share's by their number. It is seen as the list, in its order: at each position its
/// identifier, or nothing where that was met.
#[derive(Drop)]
pub struct UnmetIdentifiers {
    list: Option<Rc<IdentifierList>>,
    // A flag for each identifier of the list, at the same position: set while none was met.
    flags: Vec<bool>,
}

impl Model for UnmetIdentifiers {
    ghost use Rattle.std.specs.Prelude.{List, Option, ℕ};
    ghost use Rattle.pt_name.specs.Unmet.{ids_of, unmet_flagged};

    ghost Value = { List (Option (List ℕ)) };

    ghost view = { λ u. unmet_flagged (ids_of u.list) u.flags.items };
}

impl UnmetIdentifiers {
    /// None at all, of no list.
    pub fn none(alloc: Global) -> UnmetIdentifiers
        ensures { result ≡ [] }
    {
        UnmetIdentifiers {
            list: None,
            flags: Vec::new(alloc),
        }
    }

    /// Those of a share's list, before any was met; none where it has no list. `Memory` where a
    /// growth was refused.
    pub fn of(alloc: Global, share: &Share) -> Result<UnmetIdentifiers, MemoryFault>
        ensures { IfOk result (λ unmet. unmet ≡ unmet_by share.now) }
    {
        let Some(list) = share.list() else {
            return Ok(UnmetIdentifiers::none(alloc));
        };
        let flags = flags_of(alloc, list.ids(), share)?;
        Ok(UnmetIdentifiers {
            list: Some(list.clone()?),
            flags,
        })
    }

    /// Notes that an object of this identifier was met, whether it stands in the list or not.
    pub fn note_met(&mut self, id: &[u8])
        ensures { self.new ≡ without id.now self.old }
    {
        let Some(list) = &self.list else {
            return;
        };
        let Ok(at) = list.position(id) else {
            return;
        };
        if let Some(flag) = self.flags.get_mut(at) {
            *flag = false;
        }
    }

    /// How many positions there are: as many as the list has identifiers.
    pub fn len(&self) -> usize
        ensures { result ≡ length self.now }
    {
        self.flags.as_slice().len()
    }

    /// The identifier at a position, where no object of it was met.
    pub fn at(&self, position: usize) -> Option<&str>
        ensures { option_map (λ id. id.now) result ≡ unmet_there self.now position }
    {
        let Some(list) = &self.list else {
            return None;
        };
        let flag = self.flags.get(position)?;
        if *flag { list.get(position) } else { None }
    }
}

// Of each of these identifiers whether a share's number takes it.
fn flags_of(alloc: Global, ids: &[String], share: &Share) -> Result<Vec<bool>, AllocError>
    ensures { IfOk result (λ flags. flags.items
        ≡ map (λ id. may_meet share.now (string_bytes id)) ids.now) }
{
    let mut flags = Vec::with_capacity(alloc, ids.len())?;
    for id in ids {
        flags.push(share.may_meet(id.as_bytes()))?;
    }
    Ok(flags)
}
