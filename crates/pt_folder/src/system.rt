//! The calls of the system that folders make. Each trait says of each call, by a ghost word, what
//! it may answer and leave; a contract over them then says which calls are made, in which order,
//! and what becomes of their answers. A system may also keep trees: then its calls keep to laws, as
//! POSIX has them, from which follows what folders over it hold.
ghost use Rattle.std.specs.Prelude.{◌≡◌, ℕ, Bool, List, Option, IfOk, OnOk};
ghost use Rattle.std.specs.declared.result.Result.{Result};
ghost use Rattle.std.specs.declared.io.Error.{Error};
ghost use Rattle.std.specs.Io.{ReadsAtMost, WritesAtMost};
ghost use Rattle.pt_tree.specs.Forest.{Forest};
ghost use Rattle.pt_tree.specs.Path.{Path};
ghost use Rattle.pt_tree.specs.declared.kind.Kind.{Kind};
ghost use Rattle.pt_folder.specs.FailingLaws.{FailsStillLaw, FailsToldLaw, FileFailsLaw};
ghost use Rattle.pt_folder.specs.FailingLaws.{ListFailsLaw, LookFailsLaw, OpenFailsLaw};
ghost use Rattle.pt_folder.specs.Laws.{Gives, GoesRight};
ghost use Rattle.pt_folder.specs.DestLaws.{DirLaw, FileLaw, Kept, KindLaw, MoveLaw, PeekLaw};
ghost use Rattle.pt_folder.specs.DestLaws.{StillLaw, TreeLaw, WriteLaw};
ghost use Rattle.pt_folder.specs.SourceLaws.{LengthLaw, LookLaw, NamesLaw, OpenLaw, ProperLaw};

use pt_tree::Kind;
use std::io;

/// What is read by pieces: an open file, or the names in a directory.
pub trait Input {
    /// All its bytes, from its start, where it tells them. No call changes them.
    ghost bytes: { Self → Option (List ℕ) };

    /// Those behind the place where it stands, where that is known: after an error it isn't.
    ghost left: { Self → Option (List ℕ) };

    /// A read of so many bytes may answer so, leave these in the buffer, and leave it so.
    ghost reads: { Self → List ℕ → Result ℕ Error → Self → Type 0 };

    /// One read: some of the next bytes, none only at the end.
    fn read_piece(&mut self, buffer: &mut [u8]) -> io::Result<usize>
        ensures bound { ReadsAtMost result buffer.new }
        ensures same { bytes self.new ≡ bytes self.old }
        ensures given { IfOk result (λ n. Gives (left self.old) (left self.new) n buffer.new) }
        ensures read { reads self.old buffer.new result self.new };
}

/// An open file.
pub trait Handle: Input {
    /// Going to a place may answer so, and leave it so.
    ghost goes: { Self → ℕ → Result ℕ Error → Self → Type 0 };

    /// Having all that was written put onto the disk may answer so, and leave it so.
    ghost syncs: { Self → Result (Unit {0}) Error → Self → Type 0 };

    /// Whether one can't be read to its end, if such files tell that.
    ghost fails: { Option (Self → Bool) };

    /// Goes to a place, counted from the file's start.
    fn seek(&mut self, place: u64) -> io::Result<u64>
        ensures same { Self.bytes self.new ≡ Self.bytes self.old }
        ensures there { OnOk result (GoesRight (Self.bytes self.new) (Self.left self.new) place) }
        ensures gone { goes self.old place result self.new };

    /// Has all that was written to it put onto its disk.
    fn sync(&mut self) -> io::Result<()>
        ensures synced { syncs self.old result self.new };

    /// Reading a file that fails, or doesn't.
    ghost fails_law: { FileFailsLaw fails Self.bytes Self.reads goes };
}

/// The system, by the calls on paths, and the writes, which change what it keeps.
pub trait System {
    type File: Handle + Drop;

    type Dir: Input + Drop;

    /// What it keeps below the path of a folder that is only read, where it tells that. No call of
    /// reading changes it.
    ghost forest: { Self → List ℕ → Option Forest };

    /// At which paths below a folder that is only read it fails, where it tells that: such a
    /// directory can't be listed, and such a file can't be opened and read to its end, while each
    /// other can. A look fails only where both what is looked at and the directory above fail. What
    /// folders don't take of a directory counts too, as a name that isn't UTF-8.
    ghost failing: { Self → List ℕ → Option (Path → Bool) };

    /// What it keeps below the path of a folder that is written, where it tells that.
    ghost kept: { Self → List ℕ → Kept Self.File };

    /// What is at a path may be told to be of this kind, links not followed.
    ghost looks: { Self → List ℕ → Result Kind Error → Self → Type 0 };

    /// The length of the file at a path may be told so.
    ghost measures: { Self → List ℕ → Result ℕ Error → Self → Type 0 };

    /// The file at a path, opened for reading, may be this.
    ghost opens: { Self → List ℕ → Result Self.File Error → Self → Type 0 };

    /// The file that is made at a path may be this.
    ghost makes_file: { Self → List ℕ → Result Self.File Error → Self → Type 0 };

    /// The directory at a path may be this.
    ghost opens_dir: { Self → List ℕ → Result Self.Dir Error → Self → Type 0 };

    /// Making a directory at a path may be answered so.
    ghost makes_dir: { Self → List ℕ → Result (Unit {0}) Error → Self → Type 0 };

    /// Moving what is at the first path to the second may be answered so.
    ghost renames: { Self → List ℕ → List ℕ → Result (Unit {0}) Error → Self → Type 0 };

    /// A write of these bytes to an open file may answer so, and leave system and file so.
    ghost writes: { Self → Self.File → List ℕ → Result ℕ Error → Self → Self.File → Type 0 };

    /// The kind of what is at a path itself; links aren't followed.
    fn lstat(&mut self, path: &str) -> io::Result<Kind>
        ensures { looks self.old path.now result self.new };

    /// The length in bytes of the file at a path itself, which isn't opened; links aren't followed.
    fn lstat_length(&mut self, path: &str) -> io::Result<u64>
        ensures { measures self.old path.now result self.new };

    /// Opens a file for reading.
    fn open_to_read(&mut self, path: &str) -> io::Result<Self::File>
        ensures { opens self.old path.now result self.new };

    /// Makes a file where nothing stands, and opens it: each write goes to its end.
    fn create_new(&mut self, path: &str) -> io::Result<Self::File>
        ensures { makes_file self.old path.now result self.new };

    /// Opens a directory.
    fn read_dir(&mut self, path: &str) -> io::Result<Self::Dir>
        ensures { opens_dir self.old path.now result self.new };

    /// Makes a directory.
    fn make_dir(&mut self, path: &str) -> io::Result<()>
        ensures { makes_dir self.old path.now result self.new };

    /// Moves what is at a path.
    fn rename(&mut self, from: &str, to: &str) -> io::Result<()>
        ensures { renames self.old from.now to.now result self.new };

    /// One write to an open file.
    fn write_piece(&mut self, file: &mut Self::File, piece: &[u8]) -> io::Result<usize>
        ensures bound { WritesAtMost result piece.now }
        ensures written { writes self.old file.old piece.now result self.new file.new };

    /// A look below a folder that is read.
    ghost look_law: { LookLaw forest looks };

    /// The length of a file of a folder that is read.
    ghost length_law: { LengthLaw forest measures };

    /// A file of a folder that is read, opened for reading.
    ghost open_law: { OpenLaw forest Self.File.Input.bytes Self.File.Input.left opens };

    /// A directory of a folder that is read, opened.
    ghost names_law: { NamesLaw forest Self.Dir.left opens_dir };

    /// Names rise in what is kept.
    ghost proper_law: { ProperLaw forest };

    /// Who tells where it fails tells more.
    ghost fails_told_law: { FailsToldLaw forest failing Self.File.Handle.fails };

    /// Where it fails stays.
    ghost fails_still_law: { FailsStillLaw failing looks opens opens_dir };

    /// A look where it fails, or doesn't.
    ghost look_fails_law: { LookFailsLaw forest failing looks };

    /// A file is opened where it fails, or doesn't.
    ghost open_fails_law: { OpenFailsLaw forest failing Self.File.Handle.fails opens };

    /// A directory is listed where it fails, or isn't.
    ghost list_fails_law: { ListFailsLaw forest failing looks opens_dir Self.Dir.reads };

    /// A look below a folder that is written.
    ghost kind_law: { KindLaw kept looks };

    /// A file of a folder that is written, opened for reading.
    ghost peek_law: { PeekLaw kept Self.File.Input.left opens };

    /// Anything is opened for reading, by whatever path.
    ghost still_law: { StillLaw kept opens };

    /// A directory is made.
    ghost dir_law: { DirLaw kept makes_dir };

    /// An entry is moved.
    ghost move_law: { MoveLaw kept renames };

    /// A file is made.
    ghost file_law: { FileLaw kept makes_file };

    /// An open file is written to.
    ghost write_law: { WriteLaw kept writes };

    /// What is kept is a tree.
    ghost tree_law: { TreeLaw kept };
}
