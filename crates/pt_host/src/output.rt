//! The file of a machine's own output.
//!
//! A program is lent nothing of its own output by which that could be put onto the disk: so its
//! file is opened once more, by the name that the system has for it.
ghost use Rattle.std.specs.Prelude.{Bool};
ghost use Rattle.std.specs.declared.io.Error.{Error};
ghost use Rattle.std.specs.declared.result.Result.{Result};
ghost use Rattle.pt_host.specs.Output.{OpensOutput};

use pt_messages::Terminals;
use std::io;

/// The calls by which a machine's own output is looked at, and its file opened. An error is
/// answered where the system gives one.
pub trait OutputCalls {
    /// A file that is open.
    type Opened;

    /// Whether the output is a file may be answered so.
    ghost judges: { Self → Result Bool Error → Type 0 };

    /// Opening it to append may be answered so.
    ghost appends: { Self → Result Self.Opened Error → Type 0 };

    /// Opening it to read may be answered so.
    ghost reads: { Self → Result Self.Opened Error → Type 0 };

    /// Whether the output is a file.
    fn output_is_file(&self) -> io::Result<bool>
        ensures { judges self.now result };

    /// The output's file, opened to append, which makes none.
    fn append_output(&self) -> io::Result<Self::Opened>
        ensures { appends self.now result };

    /// The output's file, opened to read.
    fn read_output(&self) -> io::Result<Self::Opened>
        ensures { reads self.now result };
}

/// The file that a machine's output goes to, opened once more; nothing where it goes to what isn't
/// a file, as a terminal or a pipe, which isn't opened. To append, since that changes nothing of
/// it; where that can't be done, to read, which will do as well for having it put onto its disk.
///
/// An error where the system can't tell what the output is, or the file can be opened in neither
/// way.
pub fn open_output<M: OutputCalls + Terminals>(machine: &M) -> io::Result<Option<M::Opened>>
    ensures { OpensOutput (M.judges machine.now) (M.appends machine.now)
        (M.reads machine.now) result }
{
    if machine.output_is_terminal() || !machine.output_is_file()? {
        return Ok(None);
    }
    match machine.append_output() {
        Ok(file) => Ok(Some(file)),
        Err(_) => Ok(Some(machine.read_output()?)),
    }
}
