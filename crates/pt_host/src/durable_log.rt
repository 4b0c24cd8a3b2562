//! A log whose lines are put onto the disk.
//!
//! `DurableLog` is a log. Where its `put` is answered Ok, and it has a file, that was asked after
//! the writing to put onto the disk all that its writer has written, and answered Ok
//! (`IsPutBehind`). It has its file to its end, and unless it failed all that it wrote was put onto
//! the disk; and it failed only where a writing failed, or such an asking (`LogStays`). That is
//! proved whatever `puts`, the word for it, means of a file and a writer (`SyncsOutput`), and
//! `writes` of a writer (`Writes`). What a disk then has no contract says.
ghost use Rattle.std.specs.Prelude.{◌≡◌, ℕ, IsSome, List, OnErr, OnOk};
ghost use Rattle.std.specs.declared.io.Error.{Error};
ghost use Rattle.std.specs.declared.result.Result.{Result};
ghost use Rattle.std.specs.Io.KnownBytes.{Appends};
ghost use Rattle.pt_tree.specs.Failures.{HasRisen, IsCounted};
ghost use Rattle.pt_tree.specs.Log.{AppendsFront};
ghost use Rattle.pt_host.specs.Durable.{IsPutBehind, IsSyncedBy, LogStays, Put, stays_itself};
ghost use Rattle.pt_host.specs.Durable.{stays_on};

use pt_tree::{Log, TreeFault, write_out};
use std::io;
use std::io::Write;

/// What can have what was written put onto its disk.
pub trait Syncs {
    /// Having that done may answer so, and leave it so.
    ghost syncs: { Self → Result (Unit {0}) Error → Self → Type 0 };

    /// Has what was written put onto its disk; an error where that couldn't be done.
    fn sync(&mut self) -> io::Result<()>
        ensures synced { syncs self.old result self.new };
}

/// What can have all that a writer has written put onto its disk: each thing that syncs, for any
/// writer to its output. What is proved over these holds whatever `puts` means, and so says behind
/// which writing a sync came.
pub trait SyncsOutput<W: Write>: Syncs {
    /// Having all that this writer has written put onto the disk may answer so, and leave it so.
    ghost puts: { Self → W → Result (Unit {0}) Error → Self → Type 0 };

    /// Has all that a writer has written put onto its disk; an error where that couldn't be done.
    fn sync_output(&mut self, output: &W) -> io::Result<()>
        ensures put { puts self.old output.now result self.new };
}

impl<W: Write, F: Syncs> SyncsOutput<W> for F {
    ghost puts = { λ file _ answer after. F.syncs file answer after };

    fn sync_output(&mut self, _: &W) -> io::Result<()> {
        self.sync()
    }
}

/// What takes the pieces of a log: each writer. What is proved over these holds whatever `writes`
/// means, and so says which writing failed.
pub trait Writes: Write {
    /// Writing this piece out may answer so, and leave the writer so.
    ghost writes: { Self → List ℕ → Result (Unit {0}) Error → Self → Type 0 };

    /// Writes a piece out, as `write_out` does.
    fn write_piece(&mut self, piece: &[u8]) -> io::Result<()>
        ensures ok { OnOk result (Appends (Self.contents self.old) (Self.contents self.new)
            piece.now) }
        ensures part { OnErr result (AppendsFront (Self.contents self.old)
            (Self.contents self.new) piece.now) }
        ensures written { writes self.old piece.now result self.new };
}

impl<W: Write> Writes for W {
    ghost use Rattle.std.specs.Prelude.{⊤};

    ghost writes = { λ _ _ _ _. ⊤ };

    fn write_piece(&mut self, piece: &[u8]) -> io::Result<()> {
        write_out(self, piece)
    }
}

/// A log over a writer whose output, where that is asked, is put onto its disk after each piece.
#[derive(Drop)]
pub struct DurableLog<W: Write, F: SyncsOutput<W> + Drop> {
    writer: W,
    file: Option<F>,
    failures: u64,
}

impl<W: Write, F: SyncsOutput<W> + Drop> DurableLog<W, F> {
    /// A log over a writer, and the output that it writes to, if that is to be put onto its disk.
    pub fn new(writer: W, file: Option<F>) -> DurableLog<W, F>
        ensures writer { result.writer ≡ writer }
        ensures file { result.file ≡ file }
        ensures failures { result.failures ≡ 0 }
    {
        DurableLog {
            writer,
            file,
            failures: 0,
        }
    }

    /// The writer, as the log left it.
    pub fn into_writer(self) -> W
        ensures { result ≡ self.writer }
    {
        self.writer
    }

    // Counts a failure, and gives it.
    fn count_failure(&mut self) -> TreeFault
        ensures fault { result ≡ TreeFault.Device }
        ensures same { self.new.writer ≡ self.old.writer }
        ensures file { self.new.file ≡ self.old.file }
        ensures risen { HasRisen self.old.failures self.new.failures }
    {
        self.failures = self.failures.saturating_add(1);
        TreeFault::Device
    }
}

impl<W: Writes, F: SyncsOutput<W> + Drop> Log for DurableLog<W, F> {
    ghost told = { λ l. W.contents l.writer };

    ghost failed = { λ l. l.failures };

    // Where its output is put onto the disk it goes on to be; unless it failed all of it is there,
    // once something was put; and it failed only where a writing or such a putting did.
    ghost keeps = { LogStays W.writes F.puts };

    ghost is_kept = { stays_itself W.writes F.puts };

    ghost keeps_on = { stays_on W.writes F.puts };

    fn failures(&self) -> u64 {
        self.failures
    }

    fn put(&mut self, piece: &[u8]) -> Result<(), TreeFault>
        ensures ok { OnOk result (Appends (W.contents self.old.writer)
            (W.contents self.new.writer) piece.now) }
        ensures part { OnErr result (AppendsFront (W.contents self.old.writer)
            (W.contents self.new.writer) piece.now) }
        ensures synced { OnOk result
            (IsPutBehind F.puts self.new.writer self.old.file self.new.file) }
        ensures failures { IsCounted self.old.failures self.new.failures result }
        ensures keeps { LogStays W.writes F.puts self.old self.new }
    {
        match put_through(&mut self.writer, &mut self.file, piece) {
            Ok(()) => Ok(()),
            Err(_) => Err(self.count_failure()),
        }
    }
}

// Writes a piece, and puts all that the writer has written onto the disk of its file, where there
// is one.
fn put_through<W: Writes, F: SyncsOutput<W>>(
    writer: &mut W,
    file: &mut Option<F>,
    piece: &[u8],
) -> io::Result<()>
    ensures ok { OnOk result (Appends (W.contents writer.old) (W.contents writer.new) piece.now) }
    ensures part { OnErr result (AppendsFront (W.contents writer.old) (W.contents writer.new)
        piece.now) }
    ensures synced { OnOk result (IsPutBehind F.puts writer.new file.old file.new) }
    ensures still { IsSome file.old → IsSome file.new }
    ensures put { Put W.writes F.puts (writer.old, file.old) (writer.new, file.new) result }
{
    writer.write_piece(piece)?;
    sync_there(file, writer)
}

// Puts all that a writer has written onto the disk of its file, where there is one.
fn sync_there<W: Write, F: SyncsOutput<W>>(file: &mut Option<F>, writer: &W) -> io::Result<()>
    ensures synced { OnOk result (IsPutBehind F.puts writer.now file.old file.new) }
    ensures still { IsSome file.old → IsSome file.new }
    ensures asked { IsSyncedBy F.puts writer.now file.old file.new result }
{
    match file {
        Some(file) => match file.sync_output(writer) {
            Ok(()) => Ok(()),
            Err(error) => Err(error),
        },
        None => Ok(()),
    }
}
