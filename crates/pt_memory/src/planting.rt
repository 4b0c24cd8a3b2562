//! Planting in a memory tree: what is refused, and the entries that are planted.
ghost use Rattle.std.specs.Prelude.{◌≡◌, None, Some, true, IfErr, IfOk, OnOk, IsTrue, is_some};
ghost use Rattle.std.specs.Option.{option_copied, option_map};
ghost use Rattle.pt_memory.specs.declared.planting.PlantFault.TheVariants as fault;
ghost use Rattle.pt_tree.specs.Path.{last_name};
ghost use Rattle.pt_tree.specs.Forest.{file, dir, other, none, dir_at, file_at, is_proper};
ghost use Rattle.pt_tree.specs.Tree.{entry_of, kind_of_entry, put, tree_of};
ghost use Rattle.pt_memory.specs.Entries.{forest_of, node_of, open_of};
ghost use Rattle.pt_memory.specs.Planting.{IsLeafOf, is_folder, leaf_entry, plant_refusal};
ghost use Rattle.pt_memory.specs.Planting.{plant_number};
ghost use Rattle.pt_tree.specs.Name.{is_name};

use crate::changes::insert;
use crate::entries::{Entries, File, Found, at};
use pt_tree::{Kind, MemoryFault, Name, NamePath};
use std::alloc::Global;
use thiserror::Error;

/// Why nothing is planted.
#[derive(Clone, Copy, Debug, PartialEq, Eq, Error)]
pub enum PlantFault {
    /// The path's parent is no directory.
    #[error("the parent is no directory")]
    NoParent,
    /// Something stands at the path already; the empty path is the top.
    #[error("something stands at the path")]
    Taken,
    /// A growth was refused.
    #[error("out of memory")]
    Memory,
}

impl PlantFault {
    /// The fault's number: 1 `NoParent`, 2 `Taken`, 3 `Memory`.
    pub fn number(&self) -> u8
        ensures { result ≡ plant_number self.now }
    {
        match self {
            PlantFault::NoParent => 1,
            PlantFault::Taken => 2,
            PlantFault::Memory => 3,
        }
    }
}

impl From<MemoryFault> for PlantFault {
    ghost from_gives = { λ _ e. e ≡ fault.Memory };

    fn from(_: MemoryFault) -> Self {
        PlantFault::Memory
    }
}

/// Why nothing can be planted at a path, if nothing can.
pub fn refusal(entries: &Entries, path: &NamePath) -> Option<PlantFault>
    ensures { result ≡ plant_refusal (tree_of (forest_of entries.now)) path.now }
{
    let Some((dir, _)) = path.split() else {
        return Some(PlantFault::Taken);
    };
    if !is_dir(at(entries, dir)) {
        return Some(PlantFault::NoParent);
    }
    if at(entries, path.names()).is_some() {
        return Some(PlantFault::Taken);
    }
    None
}

/// The name of what may be planted at a path; the refusal, if nothing can be planted there.
pub fn free_name<'a>(entries: &Entries, path: &'a NamePath) -> Result<&'a Name, PlantFault>
    ensures free { OnOk result (plant_refusal (tree_of (forest_of entries.now)) path.now ≡ None) }
    ensures name { IfOk result (λ name. name.now ≡ last_name path.now) }
    ensures refused { IfErr result
        (λ why. plant_refusal (tree_of (forest_of entries.now)) path.now ≡ Some why) }
{
    if let Some(refusal) = refusal(entries, path) {
        return Err(refusal);
    }
    match path.split() {
        Some((_, name)) => Ok(name),
        None => Err(PlantFault::Taken),
    }
}

fn is_dir(found: Option<Found<'_>>) -> bool
    ensures { result ≡ is_folder (option_map entry_of (option_map node_of found.entry)) }
{
    matches!(found, Some(Found::Dir(_)))
}

/// Puts an entry that holds nothing inside at a path, where it may be planted.
pub fn plant(entries: &mut Entries, path: &NamePath, leaf: Entries)
    requires proper { is_proper (forest_of entries.old) ≡ true }
    requires free { plant_refusal (tree_of (forest_of entries.old)) path.now ≡ None }
    requires leaf { IsLeafOf (last_name path.now) (forest_of leaf) }
    requires shut { open_of leaf ≡ None }
    ensures tree { tree_of (forest_of entries.new)
        ≡ put (tree_of (forest_of entries.old)) path.now (leaf_entry (forest_of leaf)) }
    ensures proper { is_proper (forest_of entries.new) ≡ true }
    ensures marked { open_of entries.new ≡ open_of entries.old }
{
    if let Some((dir, _)) = path.split() {
        insert(entries, dir, leaf);
    }
}

/// A file alone.
pub fn file_leaf(alloc: Global, name: &Name, bytes: &[u8]) -> Result<Entries, MemoryFault>
    ensures leaf { IfOk result (λ leaf. (forest_of leaf ≡ file name.now bytes.now none)
        × (open_of leaf ≡ None)) }
    ensures name { IsTrue (is_name name.now) }
{
    let name = name.copy()?;
    let held = File {
        bytes: bytes.to_vec(alloc)?,
        place: None,
    };
    Ok(Entries::File(name, held, Box::new(alloc, Entries::End)?))
}

/// An empty directory alone.
pub fn dir_leaf(alloc: Global, name: &Name) -> Result<Entries, MemoryFault>
    ensures leaf { IfOk result (λ leaf. (forest_of leaf ≡ dir name.now none none)
        × (open_of leaf ≡ None)) }
    ensures name { IsTrue (is_name name.now) }
{
    let name = name.copy()?;
    let inside = Box::new(alloc, Entries::End)?;
    Ok(Entries::Dir(name, inside, Box::new(alloc, Entries::End)?))
}

/// Something that is neither, alone.
pub fn other_leaf(alloc: Global, name: &Name) -> Result<Entries, MemoryFault>
    ensures leaf { IfOk result (λ leaf. (forest_of leaf ≡ other name.now none)
        × (open_of leaf ≡ None)) }
    ensures name { IsTrue (is_name name.now) }
{
    Ok(Entries::Other(name.copy()?, Box::new(alloc, Entries::End)?))
}

/// The bytes of the file at a path, if one is there.
pub fn file_in<'a>(entries: &'a Entries, path: &NamePath) -> Option<&'a [u8]>
    ensures { option_copied result ≡ file_at (forest_of entries.now) path.now }
{
    match at(entries, path.names()) {
        Some(Found::File(bytes)) => Some(bytes),
        _ => None,
    }
}

/// Whether a directory is at a path.
pub fn dir_in(entries: &Entries, path: &NamePath) -> bool
    ensures { result ≡ is_some (dir_at (forest_of entries.now) path.now) }
{
    matches!(at(entries, path.names()), Some(Found::Dir(_)))
}

/// The kind of what stands at a path, if anything does.
pub fn kind_in(entries: &Entries, path: &NamePath) -> Option<Kind>
    ensures { result ≡ option_map kind_of_entry (tree_of (forest_of entries.now) path.now) }
{
    match at(entries, path.names()) {
        Some(Found::File(_)) => Some(Kind::File),
        Some(Found::Dir(_)) => Some(Kind::Dir),
        Some(Found::Other) => Some(Kind::Other),
        None => None,
    }
}
