//! What a machine's calls may answer and leave, as one word.
ghost use Rattle.pt_host.specs.Machine.{MachineWords, host_io_words};
ghost use Rattle.pt_host.specs.SeenByLengths.{FailsSeen};
ghost use Rattle.pt_host.specs.ReadSteps.{FailsBetween};
ghost use Rattle.pt_host.specs.Served.{Serves};

use crate::{Host, SyncsOutput, Writes};

/// A machine by all its words: those of its own calls, and those of what it lends. Each host is
/// one, and this alone is where it gets them, so that `⟦<H as Machine>⟧.words` in a contract is the
/// words of `H`, whatever `H` is.
pub trait Machine: Host {
    /// All of them.
    ghost words: { MachineWords Self };
}

impl<H: Host> Machine for H
where
    H::File: SyncsOutput<H::Output>,
    H::Output: Writes,
{
    ghost words = { record {
      Lock = H.Lock;
      Store = H.Store;
      Dest = H.Folder;
      DestFile = H.Folder.File;
      Output = H.Output;
      OutputFile = H.File;
      places = H.Places.does;
      host = H.Host.does;
      syncs = H.File.syncs;
      writes = H.Output.writes;
      puts = H.File.puts;
      written = host_io_words H.Store.forest H.Store.failing H.Folder.kept H.Output.contents;
      read = host_io_words H.Store.forest H.Store.failing H.Folder.forest H.Output.contents;
      serves = Serves H.Folder.System H.Folder.File.Handle.own
          H.Folder.File.Input H.Folder.Dir.Input;
      fails = FailsBetween H.Folder.System H.Folder.File.Handle.own
          H.Folder.File.Input H.Folder.Dir.Input;
      fails_seen = FailsSeen H.Folder.System H.Folder.File.Handle.own
          H.Folder.File.Input H.Folder.Dir.Input;
    } };
}
