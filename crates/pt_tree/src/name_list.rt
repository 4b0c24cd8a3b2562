// The names of a path, as it holds them.
ghost use Rattle.std.specs.Prelude.{◌≡◌, ◌++◌, IfOk};
ghost use Rattle.pt_tree.specs.NameList.{held_names};

use crate::{MemoryFault, Name};
use std::alloc::Global;
use std::rc::Rc;

// So few names are copied: a list that is shared is reached by one jump more, each time that it is
// read.
const FEW: usize = 8;

// A list of names. Only one of its own is ever changed.
#[derive(Drop)]
pub(crate) enum NameList {
    // One name alone: the list takes no memory.
    One([Name; 1], Global),
    Own(Vec<Name>),
    // The list of a path and of its copies.
    Shared(Rc<Vec<Name>>),
}

impl NameList {
    // These names for keeping: of one name, or of more than a few, a copy takes no memory.
    pub(crate) fn of_names(alloc: Global, names: &[Name]) -> Result<NameList, MemoryFault>
        ensures { IfOk result (λ held. held_names held ≡ names.now) }
    {
        if let [name] = names {
            return Ok(NameList::One([name.copy()?], alloc));
        }
        let list = list_with_room(alloc, names, 0)?;
        if list.len() <= FEW {
            return Ok(NameList::Own(list));
        }
        Ok(NameList::Shared(Rc::new(alloc, list)?))
    }

    // They are the same in a second value. It takes memory only of a list of its own.
    pub(crate) fn copy(&self) -> Result<NameList, MemoryFault>
        ensures { IfOk result (λ held. held_names held ≡ held_names self.now) }
    {
        match self {
            NameList::One([name], alloc) => Ok(NameList::One([name.copy()?], *alloc)),
            NameList::Own(list) => Ok(NameList::Own(list_with_room(*list.allocator(), list, 0)?)),
            NameList::Shared(list) => Ok(NameList::Shared(list.clone()?)),
        }
    }

    // The names in a second list, with room for so many more.
    pub(crate) fn to_list(&self, room: usize) -> Result<Vec<Name>, MemoryFault>
        ensures { IfOk result (λ list. list.items ≡ held_names self.now) }
    {
        list_with_room(self.allocator(), self.as_slice(), room)
    }

    pub(crate) fn allocator(&self) -> Global {
        match self {
            NameList::One(_, alloc) => *alloc,
            NameList::Own(list) => *list.allocator(),
            NameList::Shared(list) => *list.allocator(),
        }
    }

    pub(crate) fn as_slice(&self) -> &[Name]
        ensures { result.now ≡ held_names self.now }
    {
        match self {
            NameList::One(name, _) => name,
            NameList::Own(list) => list,
            NameList::Shared(list) => list.as_slice(),
        }
    }
}

// These names in a list, with room for so many more.
fn list_with_room(alloc: Global, names: &[Name], room: usize) -> Result<Vec<Name>, MemoryFault>
    ensures { IfOk result (λ list. list.items ≡ names.now) }
{
    let mut list: Vec<Name> = Vec::with_capacity(alloc, names.len().saturating_add(room))?;
    list.extend_from_slice(names)?;
    Ok(list)
}
