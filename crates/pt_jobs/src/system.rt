//! A system whose files and folders are made, not kept: it looks a path up, and traces each call.
ghost use Rattle.std.specs.Prelude.{⊤, ◌≡◌, ◌≤◌, length, refl};
ghost use Rattle.pt_folder.specs.Untold.{no_fails, no_forest, no_kept, no_paths, unknown, untold_dir, untold_fails, untold_fails_at, untold_fails_still, untold_fails_told, untold_file, untold_kind, untold_length, untold_look, untold_move, untold_names, untold_open, untold_peek, untold_proper, untold_tree, untold_write};

use crate::content::Content;
use crate::trace::Trace;
use crate::tree::{Held, Tree};
use pt_folder::{Handle, Input, System};
use pt_tree::Kind;
use std::alloc::Global;
use std::io;
use std::io::ErrorKind;

/// A folder, by its path: what stands below it, and the bytes that were written there, if they are
/// kept.
#[derive(Drop)]
pub struct MadeSystem<'a> {
    alloc: Global,
    trace: &'a Trace,
    pool: &'a [u8],
    /// What stands there.
    pub tree: Tree,
    kept: Vec<Vec<u8>>,
    keeps: bool,
    // The paths in the folder that is being filled, each with its kind and the number of its bytes.
    filling: Vec<(Vec<u8>, Kind, Held)>,
    staging: &'static [u8],
}

impl<'a> MadeSystem<'a> {
    /// A folder in which this stands.
    pub fn new(alloc: Global, trace: &'a Trace, pool: &'a [u8], tree: Tree) -> MadeSystem<'a> {
        MadeSystem {
            alloc,
            trace,
            pool,
            tree,
            kept: Vec::new(alloc),
            keeps: false,
            filling: Vec::new(alloc),
            staging: b"root/staging",
        }
    }

    /// The same folder, of which the bytes that are written are kept.
    pub fn keeping(mut self) -> MadeSystem<'a> {
        self.keeps = true;
        self
    }

    /// Takes the folder, and leaves one in which nothing stands.
    pub fn take(&mut self) -> MadeSystem<'a> {
        let mut taken = MadeSystem::new(self.alloc, self.trace, self.pool, Tree::new(self.alloc));
        std::mem::swap(self, &mut taken);
        taken
    }

    /// Changes the last byte of one in a hundred of the files whose bytes are kept, none of which
    /// is the root's own.
    pub fn alter(&mut self) {
        for (i, bytes) in self.kept.iter_mut().enumerate() {
            if i % 100 == 50
                && let Some(last) = bytes.last_mut()
            {
                *last = last.wrapping_add(1);
            }
        }
    }

    // Notes a call on a path.
    fn called(&self, call: u64, path: &str) {
        self.trace.note(call);
        self.trace.feed(path.as_bytes());
    }

    // What was made at a path: in the folder that is being filled it is found when that is moved.
    fn made(&mut self, path: &str, kind: Kind, held: Held) -> io::Result<()> {
        let bytes = path.as_bytes();
        if bytes.starts_with(self.staging) {
            if !self.keeps {
                return Ok(());
            }
            let name = bytes[self.staging.len()..].to_vec(self.alloc)?;
            self.filling.push((name, kind, held))?;
            return Ok(());
        }
        self.tree.add(bytes, kind, held)?;
        Ok(())
    }

    // Puts what is in the folder that was filled where that was moved to.
    fn moved(&mut self, to: &[u8]) -> io::Result<()> {
        for (name, kind, held) in &self.filling {
            let mut path = to.to_vec(self.alloc)?;
            path.extend_from_slice(name)?;
            self.tree.add(&path, *kind, *held)?;
        }
        self.filling.clear();
        Ok(())
    }
}

fn absent<T>() -> io::Result<T> {
    Err(io::Error::from(ErrorKind::NotFound))
}

// What an open file gives.
#[derive(Drop)]
enum Bytes<'a> {
    Made(Content, &'a [u8]),
    Kept(Vec<u8>),
    // It takes the bytes of this number.
    Taken(Option<usize>),
}

impl<'a> Bytes<'a> {
    // Puts the bytes from a place on into a buffer, and gives how many they are.
    fn fill(&self, from: u64, buffer: &mut [u8]) -> usize
        ensures { result ≤ length buffer.new }
    {
        match self {
            Bytes::Made(content, pool) => content.fill(pool, from, buffer),
            Bytes::Kept(bytes) => copied(bytes, from, buffer),
            Bytes::Taken(_) => 0,
        }
    }
}

/// An open file.
#[derive(Drop)]
pub struct MadeFile<'a> {
    trace: &'a Trace,
    bytes: Bytes<'a>,
    place: u64,
}

impl<'a> Input for MadeFile<'a> {
    ghost bytes = { unknown };

    ghost left = { unknown };

    ghost reads = { λ _ _ _ _. ⊤ };

    fn read_piece(&mut self, buffer: &mut [u8]) -> io::Result<usize> {
        let count = self.bytes.fill(self.place, buffer);
        self.place = self.place.saturating_add(count as u64);
        self.trace.note(count as u64);
        Ok(count)
    }
}

// Puts bytes from a place on into a buffer, and gives how many they are.
fn copied(bytes: &[u8], from: u64, buffer: &mut [u8]) -> usize
    ensures { result ≤ length buffer.new }
{
    let Some(rest) = bytes.get(from as usize..) else {
        return 0;
    };
    let count = rest.len().min(buffer.len());
    buffer[..count].copy_from_slice(&rest[..count]);
    count
}

impl<'a> Handle for MadeFile<'a> {
    ghost goes = { λ _ _ _ _. ⊤ };

    ghost syncs = { λ _ _ _. ⊤ };

    ghost fails = { no_fails };

    ghost fails_law = { untold_fails _ };

    fn seek(&mut self, place: u64) -> io::Result<u64> {
        self.place = place;
        Ok(place)
    }

    fn sync(&mut self) -> io::Result<()> {
        Ok(())
    }
}

/// The names in a directory, a NUL behind each. A read gives whole names.
#[derive(Drop)]
pub struct MadeNames<'a> {
    trace: &'a Trace,
    bytes: Vec<u8>,
    place: usize,
}

impl<'a> Input for MadeNames<'a> {
    ghost bytes = { unknown };

    ghost left = { unknown };

    ghost reads = { λ _ _ _ _. ⊤ };

    fn read_piece(&mut self, buffer: &mut [u8]) -> io::Result<usize> {
        let Some(rest) = self.bytes.get(self.place..) else {
            return Ok(0);
        };
        let most = rest.len().min(buffer.len());
        let count = match rest[..most].iter().rposition(|byte| *byte == 0) {
            Some(last) => last + 1,
            None => 0,
        };
        buffer[..count].copy_from_slice(&rest[..count]);
        self.place = self.place.saturating_add(count);
        self.trace.note(count as u64);
        Ok(count)
    }
}

impl<'a> System for MadeSystem<'a> {
    type File = MadeFile<'a>;

    type Dir = MadeNames<'a>;

    ghost forest = { λ _ _. no_forest };

    ghost failing = { λ _ _. no_paths };

    ghost kept = { λ _ _. no_kept };

    ghost looks = { λ _ _ _ _. ⊤ };

    ghost measures = { λ _ _ _ _. ⊤ };

    ghost opens = { λ _ _ _ _. ⊤ };

    ghost makes_file = { λ _ _ _ _. ⊤ };

    ghost opens_dir = { λ _ _ _ _. ⊤ };

    ghost makes_dir = { λ _ _ _ _. ⊤ };

    ghost renames = { λ _ _ _ _ _. ⊤ };

    ghost writes = { λ _ _ _ _ _ _. ⊤ };

    ghost look_law = { λ old new folder p reply named can by. untold_look p reply };

    ghost length_law = { λ old new folder p reply named can by. untold_length p reply };

    ghost open_law = { λ old new folder p reply named can by. untold_open p reply };

    ghost names_law = { λ old new folder p reply named can by. untold_names p reply };

    ghost proper_law = { λ s folder f is. untold_proper f is };

    ghost fails_told_law = { λ s folder told. untold_fails_told told };

    ghost fails_still_law = { untold_fails_still _ _ _ };

    ghost look_fails_law = { λ old new folder p e named can by device there. untold_fails_at _ };

    ghost open_fails_law = { λ old new folder p reply named can by. untold_fails_at _ };

    ghost list_fails_law = { λ old mid folder p reply can by. untold_fails_at _ };

    ghost kind_law = { λ old new folder p reply named by. untold_kind p reply };

    ghost peek_law = { λ old new folder p reply named by. untold_peek unknown p reply };

    ghost still_law = { λ old new folder text reply by. refl };

    ghost dir_law = { λ old new folder p reply named can by. untold_dir _ p reply };

    ghost move_law = { λ old new folder from to reply named_from named_to can by.
        untold_move _ from to reply };

    ghost file_law = { λ old new folder p reply named can by. untold_file p reply };

    ghost write_law = { λ old new folder q file after piece reply at by.
        untold_write q after piece reply };

    ghost tree_law = { λ s folder t is. untold_tree t is };

    fn lstat(&mut self, path: &str) -> io::Result<Kind> {
        self.called(1, path);
        match self.tree.kind(path.as_bytes()) {
            Some(kind) => Ok(kind),
            None => absent(),
        }
    }

    fn lstat_length(&mut self, path: &str) -> io::Result<u64> {
        self.called(8, path);
        match self.tree.held(path.as_bytes()) {
            Some(Held::Made(content)) => Ok(content.len),
            Some(Held::Kept(number)) => match self.kept.get(number) {
                Some(bytes) => Ok(bytes.len() as u64),
                None => absent(),
            },
            _ => absent(),
        }
    }

    fn open_to_read(&mut self, path: &str) -> io::Result<MadeFile<'a>> {
        self.called(2, path);
        let bytes = match self.tree.held(path.as_bytes()) {
            Some(Held::Made(content)) => Bytes::Made(content, self.pool),
            Some(Held::Kept(number)) => match self.kept.get(number) {
                Some(bytes) => Bytes::Kept(bytes.clone()?),
                None => return absent(),
            },
            _ => return absent(),
        };
        Ok(MadeFile {
            trace: self.trace,
            bytes,
            place: 0,
        })
    }

    fn create_new(&mut self, path: &str) -> io::Result<MadeFile<'a>> {
        self.called(3, path);
        let mut taken = None;
        let mut held = Held::Untold;
        if self.keeps {
            taken = Some(self.kept.len());
            held = Held::Kept(self.kept.len());
            self.kept.push(Vec::new(self.alloc))?;
        }
        self.made(path, Kind::File, held)?;
        Ok(MadeFile {
            trace: self.trace,
            bytes: Bytes::Taken(taken),
            place: 0,
        })
    }

    fn read_dir(&mut self, path: &str) -> io::Result<MadeNames<'a>> {
        self.called(4, path);
        match self.tree.names(self.alloc, path.as_bytes())? {
            Some(bytes) => Ok(MadeNames {
                trace: self.trace,
                bytes,
                place: 0,
            }),
            None => absent(),
        }
    }

    fn make_dir(&mut self, path: &str) -> io::Result<()> {
        self.called(5, path);
        self.made(path, Kind::Dir, Held::Untold)
    }

    fn rename(&mut self, from: &str, to: &str) -> io::Result<()> {
        self.called(6, from);
        self.called(7, to);
        if !self.keeps {
            self.tree.add(to.as_bytes(), Kind::Dir, Held::Untold)?;
            return Ok(());
        }
        self.moved(to.as_bytes())
    }

    fn write_piece(&mut self, file: &mut MadeFile<'a>, piece: &[u8]) -> io::Result<usize> {
        self.trace.feed(piece);
        if let Bytes::Taken(Some(number)) = &file.bytes
            && let Some(bytes) = self.kept.get_mut(*number)
        {
            bytes.extend_from_slice(piece)?;
        }
        Ok(piece.len())
    }
}
