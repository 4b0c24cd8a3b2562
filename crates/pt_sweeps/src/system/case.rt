//! What a case is: a store, and what runs over it must tell and leave.
use crate::system::beside;
use crate::system::texts::{DECLARATION, OF_ROOT};
use pt_memory::texts::{Plants, add, path, tree};
use pt_memory::{MemDest, MemSource};
use std::alloc::Global;

/// A store, and what runs over it must tell and leave. All of it was computed apart from the
/// program.
#[derive(Clone, Copy)]
pub struct Case {
    pub name: &'static str,
    /// The entries of the store: paths and bytes. A path that ends in `/` is an empty directory.
    pub store: &'static [(&'static str, &'static str)],
    /// What a run meets, in the order of the walk.
    pub met: &'static [Met],
}

/// What a run meets.
#[derive(Clone, Copy)]
pub enum Met {
    /// What isn't carried, with its line of the log.
    Skip(&'static str),
    Object(&'static Object),
}

/// An object, and what runs tell and leave of it.
#[derive(Clone, Copy)]
pub struct Object {
    /// Its place in the storage root.
    pub place: &'static str,
    /// Its line of the log where it is carried.
    pub done: &'static str,
    /// Its line of the log where it stands.
    pub present: &'static str,
    /// The files that are stored of it: their paths in it, and bytes.
    pub contents: &'static [(&'static str, &'static str)],
    pub inventory: &'static str,
    pub sidecar: &'static str,
}

impl Case {
    /// The root that holds each object whole, and nothing else.
    pub fn root(&self, alloc: Global) -> Option<MemDest> {
        let mut root = tree(alloc, OF_ROOT).ok()?;
        self.plant_objects(alloc, &mut root)?;
        Some(root)
    }

    /// A root to read that holds each object whole, and what no store here has.
    pub fn root_with_more(&self, alloc: Global) -> Option<MemSource> {
        let mut root = MemSource::new(alloc);
        add(alloc, &mut root, OF_ROOT).ok()?;
        self.plant_objects(alloc, &mut root)?;
        add(alloc, &mut root, beside::PLANTED).ok()?;
        Some(root)
    }

    fn plant_objects<T: Plants>(&self, alloc: Global, root: &mut T) -> Option<()> {
        for met in self.met {
            if let Met::Object(object) = met {
                object.plant(alloc, root)?;
            }
        }
        Some(())
    }
}

impl Object {
    /// Whether it stands in a root.
    pub fn stands(&self, alloc: Global, root: &MemDest) -> Option<bool> {
        let declared = format!(in alloc; "ocfl/{}/{DECLARATION}", self.place).ok()?;
        let at = path(alloc, declared.as_str()).ok()?;
        Some(root.file(&at).is_some())
    }

    // Plants what OCFL 1.1 wants of it: its declaration, and for itself and its one version the
    // inventory with its sidecar.
    fn plant<T: Plants>(&self, alloc: Global, root: &mut T) -> Option<()> {
        self.put(alloc, root, "", (DECLARATION, "ocfl_object_1.1\n"))?;
        for above in ["", "v1/"] {
            self.put(alloc, root, above, ("inventory.json", self.inventory))?;
            self.put(alloc, root, above, ("inventory.json.sha512", self.sidecar))?;
        }
        for file in self.contents {
            self.put(alloc, root, "v1/content/", *file)?;
        }
        Some(())
    }

    // Plants one file of it, by its path below a folder of it.
    fn put<T: Plants>(
        &self,
        alloc: Global,
        root: &mut T,
        above: &str,
        file: (&str, &str),
    ) -> Option<()> {
        let (at, bytes) = file;
        let path = format!(in alloc; "ocfl/{}/{above}{at}", self.place).ok()?;
        add(alloc, root, &[(path.as_str(), bytes)]).ok()
    }
}
