//! Trees from pairs of a path and bytes.
use crate::texts::paths::{answer_planting, push};
use crate::{MemDest, MemSource, PlantFault};
use pt_tree::{NamePath, TreeFault};
use std::alloc::Global;

/// A tree in memory that directories and files can be planted in.
pub trait Plants {
    /// Plants an empty directory; refused as `plant_dir` of the tree is.
    fn dir(&mut self, path: &NamePath) -> Result<(), PlantFault>;

    /// Plants a file of these bytes; refused as `plant_file` of the tree is.
    fn file(&mut self, path: &NamePath, bytes: &[u8]) -> Result<(), PlantFault>;
}

impl Plants for MemSource {
    fn dir(&mut self, path: &NamePath) -> Result<(), PlantFault> {
        self.plant_dir(path)
    }

    fn file(&mut self, path: &NamePath, bytes: &[u8]) -> Result<(), PlantFault> {
        self.plant_file(path, bytes)
    }
}

impl Plants for MemDest {
    fn dir(&mut self, path: &NamePath) -> Result<(), PlantFault> {
        self.plant_dir(path)
    }

    fn file(&mut self, path: &NamePath, bytes: &[u8]) -> Result<(), PlantFault> {
        self.plant_file(path, bytes)
    }
}

/// A destination with these files, and with the directories on the way to them. A path that ends in
/// `/` is a directory. The faults are those of `add`.
pub fn tree(alloc: Global, files: &[(&str, &str)]) -> Result<MemDest, TreeFault> {
    let mut dest = MemDest::new(alloc);
    add(alloc, &mut dest, files)?;
    Ok(dest)
}

/// Adds such files to a tree.
///
/// `Device` where a piece of a path is no name, or a file can't be planted; `Memory` where a growth
/// was refused for these. A directory that can't be planted is passed over.
pub fn add<T: Plants>(
    alloc: Global,
    tree: &mut T,
    files: &[(&str, &str)],
) -> Result<(), TreeFault> {
    for (text, bytes) in files {
        let at = way(alloc, tree, NamePath::new(alloc), text)?;
        if !text.ends_with('/') {
            answer_planting(tree.file(&at, bytes.as_bytes()))?;
        }
    }
    Ok(())
}

/// The path of an entry below another. Each directory that it names is planted where it isn't
/// there.
pub(crate) fn way<T: Plants>(
    alloc: Global,
    tree: &mut T,
    below: NamePath,
    text: &str,
) -> Result<NamePath, TreeFault> {
    let mut at = below;
    for name in text.split('/') {
        let _ = tree.dir(&at);
        if !name.is_empty() {
            push(alloc, &mut at, name)?;
        }
    }
    Ok(at)
}
