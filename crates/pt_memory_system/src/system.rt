ghost use Rattle.std.specs.Prelude.{◌≡◌, ◌↔◌, Some, IfOk, IfSome, IsTrue, is_ok, min, length, take};
ghost use Rattle.std.specs.Option.{option_copied, option_map};
ghost use Rattle.pt_folder.specs.Laws.{LooksRight};
ghost use Rattle.pt_folder.specs.SourceLaws.{IsLengthOf};
ghost use Rattle.pt_memory_system.specs.Folders.{AreApart};

use crate::faults::{Faults, call_error};
use crate::file::MemFile;
use crate::names::MemNames;
use crate::parse::entry_of;
use pt_folder::System;
use pt_memory::{MemDest, MemSource};
use pt_tree::{Dest, Kind, NamePath, TreeFault};
use std::alloc::Global;
use std::{io, mem};

/// A system in memory: the folder at one path is only read, and the folder at another is written.
/// Nothing is elsewhere.
#[derive(Drop)]
pub struct MemorySystem<'a> {
    alloc: Global,
    faults: &'a Faults,
    read: &'a str,
    source: MemSource,
    written: &'a str,
    dest: MemDest,
    ghost apart: { AreApart read.now written.now },
}

impl<'a> MemorySystem<'a> {
    ghost use Rattle.pt_folder.specs.SourceLaws.{GivesAll};
    ghost use Rattle.pt_memory.specs.MemDest.{dest_tree};
    ghost use Rattle.pt_memory.specs.MemSource.{source_tree};
    ghost use Rattle.pt_memory_system.specs.System.{OfEntry, bytes_in, names_left};
    ghost use Rattle.pt_tree.specs.Forest.{Dir, dir_at, file_at, kind_of, node_at};
    ghost use Rattle.pt_tree.specs.Tree.{bytes_of, kind_of_entry};

    /// A system with these two folders, each at its path; None where one path begins with the
    /// other.
    pub fn new(
        alloc: Global,
        faults: &'a Faults,
        source: (&'a str, MemSource),
        dest: (&'a str, MemDest),
    ) -> Option<MemorySystem<'a>>
        ensures read { IfSome result (λ s. s.read.now ≡ source.entry.0.now) }
        ensures source { IfSome result (λ s. s.source ≡ source.entry.1) }
        ensures written { IfSome result (λ s. s.written.now ≡ dest.entry.0.now) }
        ensures dest { IfSome result (λ s. s.dest ≡ dest.entry.1) }
    {
        let (read, source) = source;
        let (written, dest) = dest;
        if begin_alike(read, written) {
            return None;
        }
        Some(MemorySystem {
            alloc,
            faults,
            read,
            source,
            written,
            dest,
        })
    }

    /// The two folders, as the calls left them: the one that is read, and the one that is written.
    pub fn into_folders(self) -> (MemSource, MemDest)
        ensures { result ≡ (self.entry.source, self.entry.dest) }
    {
        (self.source, self.dest)
    }

    /// Takes the system, and leaves one of empty folders at the same paths.
    pub fn take(&mut self) -> MemorySystem<'a>
        ensures { result ≡ self.old }
    {
        let mut taken = MemorySystem {
            alloc: self.alloc,
            faults: self.faults,
            read: self.read,
            source: MemSource::new(self.alloc),
            written: self.written,
            dest: MemDest::new(self.alloc),
        };
        mem::swap(self, &mut taken);
        taken
    }

    fn look_in_source(&self, text: &str) -> io::Result<Kind>
        ensures { OfEntry self.now.read.now text.now (λ p. LooksRight
            (option_map kind_of (node_at (Dir (source_tree self.now.source)) p)) result) }
    {
        match entry_of(self.alloc, self.read, text) {
            Ok(path) => answer_look(self.source.kind_at(&path)),
            Err(error) => Err(error),
        }
    }

    fn look_in_dest(&self, text: &str) -> io::Result<Kind>
        ensures { OfEntry self.now.written.now text.now (λ p. LooksRight
            (option_map kind_of_entry (dest_tree self.now.dest p)) result) }
    {
        match entry_of(self.alloc, self.written, text) {
            Ok(path) => answer_look(self.dest.kind_at(&path)),
            Err(error) => Err(error),
        }
    }

    fn length_in_source(&self, text: &str) -> io::Result<u64>
        ensures { OfEntry self.now.read.now text.now
            (λ p. IsLengthOf (file_at (source_tree self.now.source) p) result) }
    {
        match entry_of(self.alloc, self.read, text) {
            Ok(path) => answer_length(self.source.file(&path)),
            Err(error) => Err(error),
        }
    }

    fn length_in_dest(&self, text: &str) -> io::Result<u64>
        ensures { OfEntry self.now.written.now text.now
            (λ p. IsLengthOf (bytes_of (dest_tree self.now.dest p)) result) }
    {
        match entry_of(self.alloc, self.written, text) {
            Ok(path) => answer_length(self.dest.file(&path)),
            Err(error) => Err(error),
        }
    }

    fn open_in_source(&self, text: &str) -> io::Result<MemFile<'a>>
        ensures start { IfOk result (λ f. f.place ≡ 0) }
        ensures bytes { OfEntry self.now.read.now text.now (λ p. IfOk result
            (λ f. bytes_in f ≡ file_at (source_tree self.now.source) p)) }
    {
        match entry_of(self.alloc, self.read, text) {
            Ok(path) => open_mem_file(self.alloc, self.faults, self.source.file(&path)),
            Err(error) => Err(error),
        }
    }

    fn open_in_dest(&self, text: &str) -> io::Result<MemFile<'a>>
        ensures start { IfOk result (λ f. f.place ≡ 0) }
        ensures bytes { OfEntry self.now.written.now text.now (λ p. IfOk result
            (λ f. bytes_in f ≡ bytes_of (dest_tree self.now.dest p))) }
    {
        match entry_of(self.alloc, self.written, text) {
            Ok(path) => open_mem_file(self.alloc, self.faults, self.dest.file(&path)),
            Err(error) => Err(error),
        }
    }

    fn names_in_source(&self, text: &str) -> io::Result<MemNames<'a>>
        ensures { OfEntry self.now.read.now text.now (λ p. IfOk result
            (λ d. GivesAll (names_left d) (dir_at (source_tree self.now.source) p))) }
    {
        match entry_of(self.alloc, self.read, text) {
            Ok(path) => match self.source.listing(&path) {
                Ok(Some(listing)) => MemNames::of(self.alloc, &listing, self.faults),
                Ok(None) => Err(io::Error::from(io::ErrorKind::NotFound)),
                Err(_) => Err(io::Error::from(io::ErrorKind::OutOfMemory)),
            },
            Err(error) => Err(error),
        }
    }
}

impl<'a> System for MemorySystem<'a> {
    ghost use Rattle.pt_folder.specs.Untold.{no_paths, untold_fails_at, untold_fails_still};
    ghost use Rattle.pt_folder.specs.Untold.{untold_fails_told};
    ghost use Rattle.pt_memory_system.specs.Keeping.{looks_in_dest, looks_in_source, makes_dirs};
    ghost use Rattle.pt_memory_system.specs.Keeping.{makes_files, measures_in_source, moves};
    ghost use Rattle.pt_memory_system.specs.Keeping.{opens_and_stays};
    ghost use Rattle.pt_memory_system.specs.Keeping.{opens_dirs};
    ghost use Rattle.pt_memory_system.specs.Keeping.{opens_in_dest, opens_in_source, propers};
    ghost use Rattle.pt_memory_system.specs.Keeping.{trees, writes};
    ghost use Rattle.pt_memory_system.specs.System.{Looks, MakesDir, MakesFile, Measures, Moves};
    ghost use Rattle.pt_memory_system.specs.System.{Opens, OpensDir, Writes, forest_in, kept_in};

    type File = MemFile<'a>;

    type Dir = MemNames<'a>;

    ghost forest = { forest_in };

    ghost failing = { λ _ _. no_paths };

    ghost kept = { kept_in };

    ghost looks = { Looks };

    ghost measures = { Measures };

    ghost opens = { Opens };

    ghost makes_file = { MakesFile };

    ghost opens_dir = { OpensDir };

    ghost makes_dir = { MakesDir };

    ghost renames = { Moves };

    ghost writes = { Writes };

    ghost look_law = { looks_in_source };

    ghost length_law = { measures_in_source };

    ghost open_law = { opens_in_source };

    ghost names_law = { opens_dirs };

    ghost proper_law = { propers };

    ghost fails_told_law = { λ s folder told. untold_fails_told told };

    ghost fails_still_law = { untold_fails_still _ _ _ };

    ghost look_fails_law = { λ old new folder p e named can by device there. untold_fails_at _ };

    ghost open_fails_law = { λ old new folder p reply named can by. untold_fails_at _ };

    ghost list_fails_law = { λ old mid folder p reply can by. untold_fails_at _ };

    ghost kind_law = { looks_in_dest };

    ghost peek_law = { opens_in_dest };

    ghost still_law = { opens_and_stays };

    ghost dir_law = { makes_dirs };

    ghost move_law = { moves };

    ghost file_law = { makes_files };

    ghost write_law = { writes };

    ghost tree_law = { trees };

    fn lstat(&mut self, path: &str) -> io::Result<Kind> {
        if self.faults.fails() {
            return Err(call_error());
        }
        if is_below(self.read, path) {
            self.look_in_source(path)
        } else {
            self.look_in_dest(path)
        }
    }

    fn lstat_length(&mut self, path: &str) -> io::Result<u64> {
        if self.faults.fails() {
            return Err(call_error());
        }
        if is_below(self.read, path) {
            self.length_in_source(path)
        } else {
            self.length_in_dest(path)
        }
    }

    fn open_to_read(&mut self, path: &str) -> io::Result<MemFile<'a>> {
        if self.faults.fails() {
            return Err(call_error());
        }
        if is_below(self.read, path) {
            self.open_in_source(path)
        } else {
            self.open_in_dest(path)
        }
    }

    fn read_dir(&mut self, path: &str) -> io::Result<MemNames<'a>> {
        if self.faults.fails() {
            return Err(call_error());
        }
        self.names_in_source(path)
    }

    fn make_dir(&mut self, path: &str) -> io::Result<()> {
        if self.faults.fails() {
            return Err(call_error());
        }
        match entry_of(self.alloc, self.written, path) {
            Ok(path) => {
                if !self.dest.may_make(&path) {
                    return Err(io::Error::from(io::ErrorKind::AlreadyExists));
                }
                let made = self.dest.mkdir(&path);
                answer_change(made)
            }
            Err(error) => Err(error),
        }
    }

    fn create_new(&mut self, path: &str) -> io::Result<MemFile<'a>> {
        if self.faults.fails() {
            return Err(call_error());
        }
        match entry_of(self.alloc, self.written, path) {
            Ok(path) => {
                if !self.dest.may_make(&path) {
                    return Err(io::Error::from(io::ErrorKind::AlreadyExists));
                }
                match self.dest.create(&path) {
                    Ok(()) => Ok(MemFile::to_write(path, Vec::new(self.alloc), self.faults)),
                    Err(_) => Err(call_error()),
                }
            }
            Err(error) => Err(error),
        }
    }

    fn rename(&mut self, from: &str, to: &str) -> io::Result<()> {
        if self.faults.fails() {
            return Err(call_error());
        }
        match entry_of(self.alloc, self.written, from) {
            Ok(from) => match entry_of(self.alloc, self.written, to) {
                Ok(to) => {
                    if !self.dest.may_move(&from, &to) {
                        return Err(io::Error::from(io::ErrorKind::AlreadyExists));
                    }
                    let moved = self.dest.rename(&from, &to);
                    answer_change(moved)
                }
                Err(error) => Err(error),
            },
            Err(error) => Err(error),
        }
    }

    fn write_piece(&mut self, file: &mut MemFile<'a>, piece: &[u8]) -> io::Result<usize> {
        let fails = self.faults.fails();
        let Some(path) = file.path() else {
            return Err(call_error());
        };
        if !self.dest.has_file(path) {
            return Err(io::Error::from(io::ErrorKind::NotFound));
        }
        let count = if fails {
            piece.len() / 2
        } else {
            self.faults.share(piece.len())
        };
        match self.dest.add_part(path, piece, count) {
            Ok(count) => {
                if fails {
                    return Err(call_error());
                }
                Ok(count)
            }
            Err(_) => Err(call_error()),
        }
    }
}

// Whether both paths begin alike, as far as the shorter one goes.
fn begin_alike(a: &str, b: &str) -> bool
    ensures { IsTrue result ↔ (take (min (length a.now) (length b.now)) a.now
        ≡ take (min (length a.now) (length b.now)) b.now) }
{
    let len = a.len().min(b.len());
    &a.as_bytes()[..len] == &b.as_bytes()[..len]
}

// Whether a path begins with a folder's.
fn is_below(folder: &str, path: &str) -> bool
    ensures { IsTrue result ↔ (take (length folder.now) path.now ≡ folder.now) }
{
    let len = folder.len();
    len <= path.len() && &path.as_bytes()[..len] == folder.as_bytes()
}

// What a look answers, by the kind of what stands there.
fn answer_look(kind: Option<Kind>) -> io::Result<Kind>
    ensures { LooksRight kind result }
{
    match kind {
        Some(kind) => Ok(kind),
        None => Err(io::Error::from(io::ErrorKind::NotFound)),
    }
}

// What the length of a file is, by its bytes, if a file stands there.
fn answer_length(found: Option<&[u8]>) -> io::Result<u64>
    ensures { IsLengthOf (option_copied found.entry) result }
{
    match found {
        Some(bytes) => Ok(bytes.len() as u64),
        None => Err(io::Error::from(io::ErrorKind::NotFound)),
    }
}

// The file of these bytes, at its start.
fn open_mem_file<'a>(
    alloc: Global,
    faults: &'a Faults,
    found: Option<&[u8]>,
) -> io::Result<MemFile<'a>>
    ensures start { IfOk result (λ f. f.place ≡ 0) }
    ensures bytes { IfOk result (λ f. Some f.bytes.items ≡ option_copied found.entry) }
{
    match found {
        Some(bytes) => match bytes.to_vec(alloc) {
            Ok(bytes) => Ok(MemFile::to_read(bytes, faults)),
            Err(_) => Err(io::Error::from(io::ErrorKind::OutOfMemory)),
        },
        None => Err(io::Error::from(io::ErrorKind::NotFound)),
    }
}

// The system's answer to a change.
fn answer_change(made: Result<(), TreeFault>) -> io::Result<()>
    ensures { is_ok result ≡ is_ok made }
{
    match made {
        Ok(()) => Ok(()),
        Err(_) => Err(call_error()),
    }
}
