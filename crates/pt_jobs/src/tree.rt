//! What stands below a folder, found by the number of its path.

use crate::content::Content;
use crate::trace::mark;
use pt_tree::Kind;
use std::alloc::{AllocError, Global};
use std::collections::HashMap;

/// The bytes of a file.
#[derive(Clone, Copy)]
pub enum Held {
    /// They are made when they are read.
    Made(Content),
    /// They are those of this number that were kept.
    Kept(usize),
    /// They are told nowhere, or it is no file.
    Untold,
}

// An entry, in the list of its directory's.
#[derive(Clone, Copy)]
struct Node {
    kind: Kind,
    held: Held,
    // Where its name stands, and how long it is.
    name: usize,
    len: usize,
    // The last of its own entries, if it is a directory.
    last: Option<usize>,
    // The entry that came before it.
    before: Option<usize>,
}

/// What stands below a folder. Two paths of one number would be taken for one.
#[derive(Drop)]
pub struct Tree {
    nodes: Vec<Node>,
    names: Vec<u8>,
    places: HashMap<u64, usize>,
}

impl Tree {
    /// Nothing stands anywhere.
    pub fn new(alloc: Global) -> Tree {
        Tree {
            nodes: Vec::new(alloc),
            names: Vec::new(alloc),
            places: HashMap::new(alloc),
        }
    }

    /// Adds an entry, in the directory that its path names, if that stands.
    pub fn add(&mut self, path: &[u8], kind: Kind, held: Held) -> Result<(), AllocError> {
        let path = trimmed(path);
        let place = self.nodes.len();
        let (above, name) = split(path);
        let mut before = None;
        if let Some(above) = self.places.get(&mark(above))
            && let Some(node) = self.nodes.get_mut(*above)
        {
            before = node.last;
            node.last = Some(place);
        }
        self.nodes.push(Node {
            kind,
            held,
            name: self.names.len(),
            len: name.len(),
            last: None,
            before,
        })?;
        self.names.extend_from_slice(name)?;
        match self.places.insert(mark(path), place) {
            Ok(_) => Ok(()),
            Err(_) => Err(AllocError),
        }
    }

    // The entry at a path.
    fn node(&self, path: &[u8]) -> Option<&Node> {
        let place = self.places.get(&mark(trimmed(path)))?;
        self.nodes.get(*place)
    }

    /// The kind of what stands at a path.
    pub fn kind(&self, path: &[u8]) -> Option<Kind> {
        Some(self.node(path)?.kind)
    }

    /// The bytes of the file at a path.
    pub fn held(&self, path: &[u8]) -> Option<Held> {
        Some(self.node(path)?.held)
    }

    /// The names in the directory at a path, a NUL behind each, the last first.
    pub fn names(&self, alloc: Global, path: &[u8]) -> Result<Option<Vec<u8>>, AllocError> {
        let Some(node) = self.node(path) else {
            return Ok(None);
        };
        let mut names = Vec::new(alloc);
        names.extend_from_slice(b".\0..\0")?;
        let mut next = node.last;
        for _ in 0..self.nodes.len() {
            let Some(entry) = next.and_then(|place| self.nodes.get(place)) else {
                break;
            };
            let end = entry.name.saturating_add(entry.len);
            if let Some(name) = self.names.get(entry.name..end) {
                names.extend_from_slice(name)?;
                names.push(0)?;
            }
            next = entry.before;
        }
        Ok(Some(names))
    }
}

// A path without a slash at its end.
fn trimmed(path: &[u8]) -> &[u8] {
    match path {
        [front @ .., b'/'] => front,
        _ => path,
    }
}

// What stands before the last slash, and what behind it.
fn split(path: &[u8]) -> (&[u8], &[u8]) {
    match path.iter().rposition(|byte| *byte == b'/') {
        Some(slash) => (&path[..slash], &path[slash + 1..]),
        None => (&[], path),
    }
}
