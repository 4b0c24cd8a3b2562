ghost use Rattle.std.specs.Prelude.{◌≡◌, ◌≢◌, ⊤, Err, OnOk, OnErr};
ghost use Rattle.std.specs.Io.KnownBytes.{Appends};
ghost use Rattle.pt_tree.specs.Failures.{IsCounted};
ghost use Rattle.pt_tree.specs.Log.{AppendsFront};

use crate::{Log, TreeFault};
use std::io;
use std::io::Write;

/// A log over a writer, flushed at each put. It takes no memory, and tells what its writer tells.
#[derive(Drop)]
pub struct WriterLog<W: Write> {
    writer: W,
    failures: u64,
}

impl<W: Write> WriterLog<W> {
    /// A log that writes to a writer.
    pub fn new(writer: W) -> WriterLog<W>
        ensures writer { result.writer ≡ writer }
        ensures failures { result.failures ≡ 0 }
    {
        WriterLog {
            writer,
            failures: 0,
        }
    }
}

impl<W: Write> Log for WriterLog<W> {
    ghost told = { λ l. W.contents l.writer };

    ghost failed = { λ l. l.failures };

    ghost keeps = { λ _ _. ⊤ };

    ghost is_kept = { λ _. tt };

    ghost keeps_on = { λ _ _ _ _ _. tt };

    fn failures(&self) -> u64 {
        self.failures
    }

    fn put(&mut self, piece: &[u8]) -> Result<(), TreeFault>
        ensures ok { OnOk result (Appends (W.contents self.old.writer)
            (W.contents self.new.writer) piece.now) }
        ensures part { OnErr result (AppendsFront (W.contents self.old.writer)
            (W.contents self.new.writer) piece.now) }
        ensures failures { IsCounted self.old.failures self.new.failures result }
        ensures no_memory { result ≢ Err TreeFault.Memory }
    {
        if write_out(&mut self.writer, piece).is_err() {
            self.failures = self.failures.saturating_add(1);
            return Err(TreeFault::Device);
        }
        Ok(())
    }
}

/// Writes all the bytes and flushes. An error ends it, as `WriteZero` does where the writer takes
/// nothing of a piece that isn't empty: then a front of the bytes was written. Nothing is tried
/// again.
pub fn write_out<W: Write>(out: &mut W, bytes: &[u8]) -> io::Result<()>
    ensures ok { OnOk result (Appends (W.contents out.old) (W.contents out.new) bytes.now) }
    ensures part { OnErr result
        (AppendsFront (W.contents out.old) (W.contents out.new) bytes.now) }
{
    let mut done = 0;
    while done < bytes.len() {
        match out.write(&bytes[done..]) {
            Ok(0) => return Err(io::Error::from(io::ErrorKind::WriteZero)),
            Ok(taken) => done += taken,
            Err(error) => return Err(error),
        }
    }
    out.flush()
}
