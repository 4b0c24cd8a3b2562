//! The runtime's own files as a system. It keeps nothing: what becomes of the folders isn't told.
//!
//! The kind that a look tells is exactly that of the metadata (`IsKind` of pt_folder). A file is
//! opened for reading by options that say just that (`for_reading`), and made by options that
//! append and want that nothing stands there (`for_making`). That its calls take these is said by
//! no clause.
ghost use Rattle.std.specs.Prelude.{⊤, ◌≡◌, refl};
ghost use Rattle.std.specs.Fs.{file_type as type_of};
ghost use Rattle.pt_folder.specs.Folder.{IsKind};
ghost use Rattle.pt_folder.specs.Untold.{no_fails, no_forest, no_kept, no_paths, unknown};
ghost use Rattle.pt_folder.specs.Untold.{untold_dir, untold_fails, untold_fails_at};
ghost use Rattle.pt_folder.specs.Untold.{untold_fails_still, untold_fails_told, untold_file};
ghost use Rattle.pt_folder.specs.Untold.{untold_kind, untold_length, untold_look, untold_move};
ghost use Rattle.pt_folder.specs.Untold.{untold_names, untold_open, untold_peek, untold_proper};
ghost use Rattle.pt_folder.specs.Untold.{untold_tree, untold_write};
ghost use Rattle.pt_machine.specs.Options.{for_making, for_reading};

use crate::machine::HostMachine;
use pt_folder::{Handle, Input, System};
use pt_tree::Kind;
use std::fs::{Metadata, OpenFile, OpenOptions};
use std::io;
use std::io::{Read, Seek, SeekFrom, Write};
use std::rt::Files;

/// An open file of the runtime, or the names in a directory.
#[derive(Drop)]
pub struct HostFile<F> {
    file: F,
}

impl<F> HostFile<F> {
    /// A file that the runtime opened.
    pub fn new(file: F) -> HostFile<F>
        ensures { result ≡ record { file = file } }
    {
        HostFile { file }
    }
}

impl<F: Read> Input for HostFile<F> {
    ghost bytes = { unknown };

    ghost left = { unknown };

    ghost reads = { λ _ _ _ _. ⊤ };

    // One read, at the place where it stands.
    fn read_piece(&mut self, buffer: &mut [u8]) -> io::Result<usize> {
        self.file.read(buffer)
    }
}

impl<F: Read + Seek + OpenFile> Handle for HostFile<F> {
    ghost goes = { λ _ _ _ _. ⊤ };

    ghost syncs = { λ _ _ _. ⊤ };

    ghost fails = { no_fails };

    ghost fails_law = { untold_fails _ };

    // Goes to a place, counted from its start.
    fn seek(&mut self, place: u64) -> io::Result<u64> {
        self.file.seek(SeekFrom::Start(place))
    }

    // fsync: what was written is put onto the disk.
    fn sync(&mut self) -> io::Result<()> {
        self.file.sync_all()
    }
}

impl<'a, R: Files> System for HostMachine<'a, R> {
    type File = HostFile<R::File>;

    type Dir = HostFile<R::Dir>;

    ghost forest = { λ _ _. no_forest };

    ghost failing = { λ _ _. no_paths };

    ghost kept = { λ _ _. no_kept };

    ghost looks = { λ _ _ _ _. ⊤ };

    ghost measures = { λ _ _ _ _. ⊤ };

    ghost opens = { λ _ _ _ _. ⊤ };

    ghost makes_file = { λ _ _ _ _. ⊤ };

    ghost opens_dir = { λ _ _ _ _. ⊤ };

    ghost makes_dir = { λ _ _ _ _. ⊤ };

    ghost renames = { λ _ _ _ _ _. ⊤ };

    ghost writes = { λ _ _ _ _ _ _. ⊤ };

    ghost look_law = { λ old new folder p reply named can by. untold_look p reply };

    ghost length_law = { λ old new folder p reply named can by. untold_length p reply };

    ghost open_law = { λ old new folder p reply named can by. untold_open p reply };

    ghost names_law = { λ old new folder p reply named can by. untold_names p reply };

    ghost proper_law = { λ s folder f is. untold_proper f is };

    ghost fails_told_law = { λ s folder told. untold_fails_told told };

    ghost fails_still_law = { untold_fails_still _ _ _ };

    ghost look_fails_law = { λ old new folder p e named can by device there. untold_fails_at _ };

    ghost open_fails_law = { λ old new folder p reply named can by. untold_fails_at _ };

    ghost list_fails_law = { λ old mid folder p reply can by. untold_fails_at _ };

    ghost kind_law = { λ old new folder p reply named by. untold_kind p reply };

    ghost peek_law = { λ old new folder p reply named by. untold_peek unknown p reply };

    ghost still_law = { λ old new folder text reply by. refl };

    ghost dir_law = { λ old new folder p reply named can by. untold_dir _ p reply };

    ghost move_law = { λ old new folder from to reply named_from named_to can by.
        untold_move _ from to reply };

    ghost file_law = { λ old new folder p reply named can by. untold_file p reply };

    ghost write_law = { λ old new folder q file after piece reply at by.
        untold_write q after piece reply };

    ghost tree_law = { λ s folder t is. untold_tree t is };

    // lstat: a link is not followed.
    fn lstat(&mut self, path: &str) -> io::Result<Kind> {
        Ok(kind_of(&self.rt.symlink_metadata(path)?))
    }

    // lstat: a link is not followed, and no file is opened.
    fn lstat_length(&mut self, path: &str) -> io::Result<u64> {
        Ok(self.rt.symlink_metadata(path)?.len())
    }

    // open, to read.
    fn open_to_read(&mut self, path: &str) -> io::Result<HostFile<R::File>> {
        Ok(HostFile::new(self.rt.open_file(&reading(), path)?))
    }

    // open, to append, which makes the file and fails where anything stands, also a link.
    fn create_new(&mut self, path: &str) -> io::Result<HostFile<R::File>> {
        Ok(HostFile::new(self.rt.open_file(&making(), path)?))
    }

    // open, of a directory, to read its names.
    fn read_dir(&mut self, path: &str) -> io::Result<HostFile<R::Dir>> {
        Ok(HostFile::new(self.rt.open_dir(path)?))
    }

    // mkdir, which fails where anything stands.
    fn make_dir(&mut self, path: &str) -> io::Result<()> {
        self.rt.create_dir(path)
    }

    // rename.
    fn rename(&mut self, from: &str, to: &str) -> io::Result<()> {
        self.rt.rename(from, to)
    }

    // write, at the file's end, since it was opened to append.
    fn write_piece(&mut self, file: &mut HostFile<R::File>, piece: &[u8]) -> io::Result<usize> {
        file.file.write(piece)
    }
}

// The kind of an entry, by what the system says of the entry itself.
fn kind_of(metadata: &Metadata) -> Kind
    ensures { IsKind (type_of metadata.now) result }
{
    if metadata.is_file() {
        Kind::File
    } else if metadata.is_dir() {
        Kind::Dir
    } else {
        Kind::Other
    }
}

/// How a file is opened for reading.
pub(crate) fn reading() -> OpenOptions
    ensures { result ≡ for_reading }
{
    let mut options = OpenOptions::new();
    options.read(true);
    options
}

// How a file is made: each write goes to its end, and only where nothing stands.
fn making() -> OpenOptions
    ensures { result ≡ for_making }
{
    let mut options = OpenOptions::new();
    options.append(true).create_new(true);
    options
}
