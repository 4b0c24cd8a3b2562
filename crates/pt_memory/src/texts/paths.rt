//! Paths from texts.
use crate::PlantFault;
use pt_tree::{Name, NameFault, NamePath, TreeFault};
use std::alloc::Global;

/// The path of these names, with `/` between. The empty text is the top.
/// `Device` where a piece between them is no name, `Memory` where a growth was refused.
pub fn path(alloc: Global, text: &str) -> Result<NamePath, TreeFault> {
    NamePath::of_text(alloc, text.as_bytes()).map_err(fault_of)
}

/// Goes one name down.
pub(crate) fn push(alloc: Global, path: &mut NamePath, text: &str) -> Result<(), TreeFault> {
    let name = Name::of(alloc, text.as_bytes()).map_err(fault_of)?;
    Ok(path.push(name)?)
}

fn fault_of(refusal: NameFault) -> TreeFault {
    match refusal {
        NameFault::Memory => TreeFault::Memory,
        _ => TreeFault::Device,
    }
}

/// What planting came to.
pub(crate) fn answer_planting(answer: Result<(), PlantFault>) -> Result<(), TreeFault> {
    match answer {
        Ok(()) => Ok(()),
        Err(PlantFault::Memory) => Err(TreeFault::Memory),
        Err(_) => Err(TreeFault::Device),
    }
}
