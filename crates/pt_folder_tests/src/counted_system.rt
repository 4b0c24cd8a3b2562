//! A system that counts its calls: looks, changes and syncs. Of these one kind may fail.
ghost use Rattle.std.specs.Prelude.{⊤, refl};
ghost use Rattle.pt_folder.specs.Untold.{no_forest, no_kept, no_paths, unknown, untold_dir};
ghost use Rattle.pt_folder.specs.Untold.{untold_fails_at, untold_fails_still, untold_fails_told};
ghost use Rattle.pt_folder.specs.Untold.{untold_file, untold_kind, untold_length, untold_look};
ghost use Rattle.pt_folder.specs.Untold.{untold_move};
ghost use Rattle.pt_folder.specs.Untold.{untold_names, untold_open, untold_peek, untold_proper};
ghost use Rattle.pt_folder.specs.Untold.{untold_tree, untold_write};

use pt_folder::System;
use pt_machine::HostFile;
use pt_tree::Kind;
use std::cell::Cell;
use std::fs::{Metadata, OpenFile};
use std::io;
use std::io::{ErrorKind, Read, Seek, SeekFrom};

/// How often the system was asked, and whether a sync or a look fails.
#[derive(Drop)]
pub struct Counts {
    pub looks: Cell<u32>,
    pub changes: Cell<u32>,
    pub syncs: Cell<u32>,
    pub no_sync: Cell<bool>,
    pub no_look: Cell<bool>,
}

impl Counts {
    pub fn new() -> Counts {
        Counts {
            looks: Cell::new(0),
            changes: Cell::new(0),
            syncs: Cell::new(0),
            no_sync: Cell::new(false),
            no_look: Cell::new(false),
        }
    }

    pub fn system(&self) -> Counted<'_> {
        Counted { counts: self }
    }
}

fn add_one(count: &Cell<u32>) {
    count.set(count.get().saturating_add(1));
}

#[derive(Drop)]
pub struct CountedFile<'a> {
    counts: &'a Counts,
}

impl<'a> Read for CountedFile<'a> {
    fn read(&mut self, _: &mut [u8]) -> io::Result<usize> {
        Ok(0)
    }
}

impl<'a> Seek for CountedFile<'a> {
    fn seek(&mut self, _: SeekFrom) -> io::Result<u64> {
        Ok(0)
    }
}

impl<'a> OpenFile for CountedFile<'a> {
    fn metadata(&self) -> io::Result<Metadata> {
        Ok(Metadata::of_file(0))
    }

    fn set_len(&self, _: u64) -> io::Result<()> {
        Ok(())
    }

    fn sync_all(&self) -> io::Result<()> {
        add_one(&self.counts.syncs);
        if self.counts.no_sync.get() {
            return Err(io::Error::from(ErrorKind::Other));
        }
        Ok(())
    }

    fn sync_data(&self) -> io::Result<()> {
        Ok(())
    }
}

#[derive(Drop)]
pub struct NoNames;

impl Read for NoNames {
    fn read(&mut self, _: &mut [u8]) -> io::Result<usize> {
        Ok(0)
    }
}

/// The system whose calls are counted.
#[derive(Drop)]
pub struct Counted<'a> {
    counts: &'a Counts,
}

impl<'a> System for Counted<'a> {
    type File = HostFile<CountedFile<'a>>;

    type Dir = HostFile<NoNames>;

    ghost forest = { λ _ _. no_forest };

    ghost failing = { λ _ _. no_paths };

    ghost kept = { λ _ _. no_kept };

    ghost looks = { λ _ _ _ _. ⊤ };

    ghost measures = { λ _ _ _ _. ⊤ };

    ghost opens = { λ _ _ _ _. ⊤ };

    ghost makes_file = { λ _ _ _ _. ⊤ };

    ghost opens_dir = { λ _ _ _ _. ⊤ };

    ghost makes_dir = { λ _ _ _ _. ⊤ };

    ghost renames = { λ _ _ _ _ _. ⊤ };

    ghost writes = { λ _ _ _ _ _ _. ⊤ };

    ghost look_law = { λ old new folder p reply named can by. untold_look p reply };

    ghost length_law = { λ old new folder p reply named can by. untold_length p reply };

    ghost open_law = { λ old new folder p reply named can by. untold_open p reply };

    ghost names_law = { λ old new folder p reply named can by. untold_names p reply };

    ghost proper_law = { λ s folder f is. untold_proper f is };

    ghost fails_told_law = { λ s folder told. untold_fails_told told };

    ghost fails_still_law = { untold_fails_still _ _ _ };

    ghost look_fails_law = { λ old new folder p e named can by device there. untold_fails_at _ };

    ghost open_fails_law = { λ old new folder p reply named can by. untold_fails_at _ };

    ghost list_fails_law = { λ old mid folder p reply can by. untold_fails_at _ };

    ghost kind_law = { λ old new folder p reply named by. untold_kind p reply };

    ghost peek_law = { λ old new folder p reply named by. untold_peek unknown p reply };

    ghost still_law = { λ old new folder text reply by. refl };

    ghost dir_law = { λ old new folder p reply named can by. untold_dir _ p reply };

    ghost move_law = { λ old new folder from to reply named_from named_to can by.
        untold_move _ from to reply };

    ghost file_law = { λ old new folder p reply named can by. untold_file p reply };

    ghost write_law = { λ old new folder q file after piece reply at by.
        untold_write q after piece reply };

    ghost tree_law = { λ s folder t is. untold_tree t is };

    fn lstat(&mut self, _: &str) -> io::Result<Kind> {
        add_one(&self.counts.looks);
        if self.counts.no_look.get() {
            return Err(io::Error::from(ErrorKind::NotFound));
        }
        Ok(Kind::File)
    }

    fn lstat_length(&mut self, _: &str) -> io::Result<u64> {
        add_one(&self.counts.looks);
        if self.counts.no_look.get() {
            return Err(io::Error::from(ErrorKind::NotFound));
        }
        Ok(0)
    }

    fn open_to_read(&mut self, _: &str) -> io::Result<HostFile<CountedFile<'a>>> {
        Ok(HostFile::new(CountedFile {
            counts: self.counts,
        }))
    }

    fn create_new(&mut self, _: &str) -> io::Result<HostFile<CountedFile<'a>>> {
        add_one(&self.counts.changes);
        Ok(HostFile::new(CountedFile {
            counts: self.counts,
        }))
    }

    fn read_dir(&mut self, _: &str) -> io::Result<HostFile<NoNames>> {
        add_one(&self.counts.looks);
        Ok(HostFile::new(NoNames))
    }

    fn make_dir(&mut self, _: &str) -> io::Result<()> {
        add_one(&self.counts.changes);
        Ok(())
    }

    fn rename(&mut self, _: &str, _: &str) -> io::Result<()> {
        add_one(&self.counts.changes);
        Ok(())
    }

    fn write_piece(
        &mut self,
        _: &mut HostFile<CountedFile<'a>>,
        piece: &[u8],
    ) -> io::Result<usize> {
        add_one(&self.counts.changes);
        Ok(piece.len())
    }
}
