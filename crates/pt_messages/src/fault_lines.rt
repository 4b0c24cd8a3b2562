//! What is told of a fault: a line with its number and its text.
ghost use Rattle.std.specs.Prelude.{◌≡◌};
ghost use Rattle.pt_messages.specs.FaultLines.{dest_line, fault_line, fault_text};

use crate::watch::Words;
use pt_move::Fault;

// How many bytes stand before the text in the line of a fault whose number has one digit.
const FRONT: usize = 24;

impl Words {
    /// The line that standard error is told of a fault.
    pub fn line_of(self, fault: &Fault) -> &'static str
        ensures { result.now ≡ fault_line self fault.now }
    {
        match fault {
            Fault::Source => "pairtree2ocfl: fault 1: cannot read the source\n",
            Fault::Dest => self.line_of_dest(),
            Fault::Log => "pairtree2ocfl: fault 3: cannot write the output\n",
            Fault::Memory => "pairtree2ocfl: fault 4: out of memory\n",
            Fault::NotPairtree => "pairtree2ocfl: fault 5: not a Pairtree 0.1 store\n",
            Fault::Prefix => {
                "pairtree2ocfl: fault 6: the prefix file is not a text of at most 1024 bytes\n"
            }
            Fault::StagingLeft => {
                "pairtree2ocfl: fault 7: a staging directory is left in the destination\n"
            }
            Fault::Target => {
                "pairtree2ocfl: fault 8: the ocfl directory of the destination cannot be used\n"
            }
            Fault::Changed => "pairtree2ocfl: fault 9: a source file changed during the run\n",
            Fault::Turns => "pairtree2ocfl: fault 10: too many turns\n",
            Fault::Ended => "pairtree2ocfl: fault 11: the run has ended\n",
        }
    }

    // That of the destination's: an audit only reads its destination, and a check has none.
    fn line_of_dest(self) -> &'static str
        ensures { result.now ≡ dest_line self }
    {
        match self {
            Words::Run => "pairtree2ocfl: fault 2: cannot write the destination\n",
            Words::Audit(_) | Words::BothWays(_) | Words::Check => {
                "pairtree2ocfl: fault 2: cannot read the destination\n"
            }
        }
    }

    /// The text of a fault: what its line says behind the number.
    pub(crate) fn text_of(self, fault: &Fault) -> &'static str
        ensures { result.now ≡ fault_text self fault.now }
    {
        let line = self.line_of(fault);
        let front = if fault.number() < 10 {
            FRONT
        } else {
            FRONT + 1
        };
        &line[front..line.len() - 1]
    }
}
