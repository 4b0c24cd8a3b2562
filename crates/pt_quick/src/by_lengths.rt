//! A system seen by lengths: of a file with a long path what is read is the text of its length.
//!
//! Long is a path with more slashes than a limit. Such a file isn't opened: its length is asked for
//! when it is opened here (`Opens`), and while its text is read nothing is asked. Each other call
//! is that of the system within, and its answer (`Asks`).
//!
//! The tree below a folder is the system's, with the text of each file's length in the place of its
//! bytes where the file's path in the folder has more names than the limit leaves (`forest_by`).
//! Where it fails, and what is kept of a folder that is written, isn't told.
ghost use Rattle.std.specs.Prelude.{◌≡◌, ◌+◌, refl};
ghost use Rattle.pt_folder.specs.Untold.{no_kept, no_paths, untold_dir, untold_fails_at};
ghost use Rattle.pt_folder.specs.Untold.{untold_fails_still, untold_fails_told, untold_file};
ghost use Rattle.pt_folder.specs.Untold.{untold_kind, untold_move, untold_peek, untold_tree};
ghost use Rattle.pt_folder.specs.Untold.{untold_write};
ghost use Rattle.pt_quick.specs.ByLengths.{Asks, IsSame, LeadsToLength, LeadsToOwn};
ghost use Rattle.pt_quick.specs.ByLengths.{LeadsToText, Measures, Opens, Renames, Writes};
ghost use Rattle.pt_quick.specs.ByLengths.{forest_by};
ghost use Rattle.pt_quick.specs.Slashes.{slashes_in};
ghost use Rattle.pt_quick.specs.ByLengthsLaws.{lists_within, looks_within};
ghost use Rattle.pt_quick.specs.ByLengthsLaws.{measures_within, opens_within, proper_within};

use crate::length_text::LengthText;
use crate::seen_file::SeenFile;
use crate::slashes::{count_slashes, is_past};
use pt_folder::System;
use pt_tree::Kind;
use std::io;

/// A system in which the bytes of a file are the text of its length, where its path has more
/// slashes than a limit; all else is as it is within.
#[derive(Drop)]
pub struct ByLengths<S> {
    system: S,
    slashes: u64,
    longest: u64,
}

impl<S> ByLengths<S> {
    /// A system of which those files are seen by their lengths whose paths have more than so many
    /// slashes, a slash behind a folder's path counted too; the texts of those longer than
    /// `longest` bytes are marked. It calls nothing.
    pub fn new(system: S, slashes: u64, longest: u64) -> ByLengths<S>
        ensures { result ≡ record { system = system; slashes = slashes; longest = longest } }
    {
        ByLengths {
            system,
            slashes,
            longest,
        }
    }

    /// A system of which the files in a folder are seen so whose paths there have more than so many
    /// names. It calls nothing.
    pub fn below(system: S, folder: &str, depth: u32, longest: u64) -> ByLengths<S>
        ensures { result ≡ record {
          system = system;
          slashes = slashes_in folder.now + depth;
          longest = longest;
        } }
    {
        ByLengths::new(system, count_slashes(folder) + u64::from(depth), longest)
    }

    /// The system within, as the calls left it; open files stay open.
    pub fn into_system(self) -> S
        ensures { result ≡ self.system }
    {
        self.system
    }
}

impl<S: System> System for ByLengths<S> {
    type File = SeenFile<S::File>;

    type Dir = S::Dir;

    ghost forest = { forest_by S.forest };

    ghost failing = { λ _ _. no_paths };

    ghost kept = { λ _ _. no_kept };

    ghost looks = { Asks S.looks IsSame };

    ghost measures = { Measures S.measures };

    ghost opens = { Opens S.measures S.opens };

    ghost makes_file = { Asks S.makes_file LeadsToOwn };

    ghost opens_dir = { Asks S.opens_dir IsSame };

    ghost makes_dir = { Asks S.makes_dir IsSame };

    ghost renames = { Renames S.renames };

    ghost writes = { Writes S.writes };

    ghost look_law = { looks_within S.forest S.looks S.look_law };

    ghost length_law = { measures_within S.forest S.measures S.length_law };

    ghost open_law = { opens_within S.forest S.File.Input.bytes S.File.Input.left
        S.measures S.opens S.length_law S.open_law };

    ghost names_law = { lists_within S.forest S.Dir.left S.opens_dir S.names_law };

    ghost proper_law = { proper_within S.forest S.proper_law };

    ghost fails_told_law = { λ s folder told. untold_fails_told told };

    ghost fails_still_law = { untold_fails_still _ _ _ };

    ghost look_fails_law = { λ old new folder p e named can by device there. untold_fails_at _ };

    ghost open_fails_law = { λ old new folder p reply named can by. untold_fails_at _ };

    ghost list_fails_law = { λ old mid folder p reply can by. untold_fails_at _ };

    ghost kind_law = { λ old new folder p reply named by. untold_kind p reply };

    ghost peek_law = { λ old new folder p reply named by. untold_peek _ p reply };

    ghost still_law = { λ old new folder text reply by. refl };

    ghost dir_law = { λ old new folder p reply named can by. untold_dir _ p reply };

    ghost move_law = { λ old new folder from to reply named_from named_to can by.
        untold_move _ from to reply };

    ghost file_law = { λ old new folder p reply named can by. untold_file p reply };

    ghost write_law = { λ old new folder q file after piece reply at by.
        untold_write q after piece reply };

    ghost tree_law = { λ s folder t is. untold_tree t is };

    fn lstat(&mut self, path: &str) -> io::Result<Kind> {
        self.system.lstat(path)
    }

    fn lstat_length(&mut self, path: &str) -> io::Result<u64> {
        let count = self.system.lstat_length(path);
        if is_past(self.slashes, path) {
            return text_length(count, self.longest);
        }
        count
    }

    fn open_to_read(&mut self, path: &str) -> io::Result<SeenFile<S::File>> {
        if is_past(self.slashes, path) {
            let count = self.system.lstat_length(path);
            return open_text(count, self.longest);
        }
        own(self.system.open_to_read(path))
    }

    fn create_new(&mut self, path: &str) -> io::Result<SeenFile<S::File>> {
        own(self.system.create_new(path))
    }

    fn read_dir(&mut self, path: &str) -> io::Result<S::Dir> {
        self.system.read_dir(path)
    }

    fn make_dir(&mut self, path: &str) -> io::Result<()> {
        self.system.make_dir(path)
    }

    fn rename(&mut self, from: &str, to: &str) -> io::Result<()> {
        self.system.rename(from, to)
    }

    fn write_piece(&mut self, file: &mut SeenFile<S::File>, piece: &[u8]) -> io::Result<usize> {
        match file {
            SeenFile::Own(file) => self.system.write_piece(file, piece),
            SeenFile::Text(_) => Err(io::Error::from(io::ErrorKind::PermissionDenied)),
        }
    }
}

// The text of the length that is told, at its start.
fn open_text<F>(count: io::Result<u64>, longest: u64) -> io::Result<SeenFile<F>>
    ensures { LeadsToText longest count result }
{
    match count {
        Ok(count) => Ok(SeenFile::Text(LengthText::of(count, longest))),
        Err(error) => Err(error),
    }
}

// The length of that text.
fn text_length(count: io::Result<u64>, longest: u64) -> io::Result<u64>
    ensures { LeadsToLength longest count result }
{
    match count {
        Ok(count) => Ok(LengthText::of(count, longest).len() as u64),
        Err(error) => Err(error),
    }
}

// The system's own file.
fn own<F>(opened: io::Result<F>) -> io::Result<SeenFile<F>>
    ensures { LeadsToOwn opened result }
{
    match opened {
        Ok(file) => Ok(SeenFile::Own(file)),
        Err(error) => Err(error),
    }
}
