//! How a store is put together, entry by entry.

use crate::content::Content;
use crate::draw::Draw;
use crate::tree::{Held, Tree};
use pt_tree::Kind;
use std::alloc::{AllocError, Global};

// The letters of identifiers.
const LETTERS: &[u8] = b"0123456789bcdfghjkmnpqrstvwxz";

/// A store that is put together, and the folder where that is at.
#[derive(Drop)]
pub struct Builder {
    pub alloc: Global,
    pub draw: Draw,
    tree: Tree,
    path: Vec<u8>,
    ends: Vec<usize>,
}

impl Builder {
    /// A store of nothing but its `pairtree_root`, which is entered, with this prefix.
    pub fn start(alloc: Global, seed: u64, prefix: &str) -> Result<Builder, AllocError> {
        let mut builder = Builder {
            alloc,
            draw: Draw::of(seed),
            tree: Tree::new(alloc),
            path: Vec::new(alloc),
            ends: Vec::new(alloc),
        };
        builder.path.extend_from_slice(b"store")?;
        builder.tree.add(b"store", Kind::Dir, Held::Untold)?;
        builder.file("pairtree_version0_1", 49)?;
        if !prefix.is_empty() {
            builder.text("pairtree_prefix", prefix)?;
        }
        builder.enter(b"pairtree_root")?;
        Ok(builder)
    }

    /// The store.
    pub fn done(self) -> Tree {
        self.tree
    }

    /// Enters a folder, which is made where it isn't there.
    pub fn enter(&mut self, name: &[u8]) -> Result<(), AllocError> {
        self.ends.push(self.path.len())?;
        self.path.push(b'/')?;
        self.path.extend_from_slice(name)?;
        if self.tree.kind(&self.path).is_none() {
            self.tree.add(&self.path, Kind::Dir, Held::Untold)?;
        }
        Ok(())
    }

    /// Leaves so many folders.
    pub fn leave(&mut self, folders: usize) {
        for _ in 0..folders {
            if let Some(end) = self.ends.pop() {
                self.path.truncate(end);
            }
        }
    }

    /// Enters the site of a cleaned identifier, shorty by shorty, and gives how many they are.
    pub fn enter_site(&mut self, id: &[u8]) -> Result<usize, AllocError> {
        let mut shorties: usize = 0;
        for shorty in id.chunks(2) {
            self.enter(shorty)?;
            shorties = shorties.saturating_add(1);
        }
        Ok(shorties)
    }

    /// A file of so many bytes.
    pub fn file(&mut self, name: &str, len: u64) -> Result<(), AllocError> {
        let content = Content::of(len, &mut self.draw);
        self.file_of(name, content)
    }

    /// A file of from so many to so many bytes.
    pub fn file_between(&mut self, name: &str, least: u64, most: u64) -> Result<(), AllocError> {
        let len = self.draw.between(least, most);
        self.file(name, len)
    }

    /// A file of these bytes.
    pub fn file_of(&mut self, name: &str, content: Content) -> Result<(), AllocError> {
        self.entry(name, Kind::File, Held::Made(content))
    }

    // A file of a text of at most eight bytes.
    fn text(&mut self, name: &str, text: &str) -> Result<(), AllocError> {
        self.entry(name, Kind::File, Held::Made(Content::of_text(text)))
    }

    /// What is neither a file nor a folder.
    pub fn other(&mut self, name: &str) -> Result<(), AllocError> {
        self.entry(name, Kind::Other, Held::Untold)
    }

    fn entry(&mut self, name: &str, kind: Kind, held: Held) -> Result<(), AllocError> {
        let end = self.path.len();
        self.path.push(b'/')?;
        self.path.extend_from_slice(name.as_bytes())?;
        self.tree.add(&self.path, kind, held)?;
        self.path.truncate(end);
        Ok(())
    }

    /// So many letters behind a text.
    pub fn letters(&mut self, before: &str, count: u64) -> Result<Vec<u8>, AllocError> {
        let mut id = before.as_bytes().to_vec(self.alloc)?;
        for _ in 0..count {
            let place = self.draw.between(0, LETTERS.len() as u64 - 1) as usize;
            id.push(LETTERS.get(place).copied().unwrap_or(b'0'))?;
        }
        Ok(id)
    }
}
