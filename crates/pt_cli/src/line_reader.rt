//! The lines of an input: `names -` and `--list` are read by one reader. It takes the bytes one
//! after another, tells where a line ends (`TakesByte`), and gives that line to its caller, as the
//! identifier that it is or refused with its number.
ghost use Rattle.std.specs.Prelude.{◌≡◌, ◌==◌, [], MatchResult, length};
ghost use Rattle.std.specs.Io.BufRead.{strip_last};
ghost use Rattle.pt_cli.specs.Lines.{TakesByte, line_fault, next_number};

use crate::list_fault::LinesFault;
use crate::{BadLine, LineFault};
use std::alloc::Global;
use std::marker::Model;

// The most bytes of an identifier.
const LONGEST: usize = 65_536;

// Where the reading of lines stands: the number of the line at hand, and what was read of it.
#[derive(Drop)]
pub(crate) struct LineReader {
    number: u64,
    line: Vec<u8>,
}

impl Model for LineReader {
    ghost use Rattle.pt_cli.specs.Lines.{AtLine};

    ghost Value = { AtLine };

    ghost view = { λ r. record { number = r.number; line = r.line.items } };
}

impl LineReader {
    // The beginning of an input.
    pub(crate) fn new(alloc: Global) -> LineReader
        ensures { result ≡ record { number = 1; line = [] } }
    {
        LineReader {
            number: 1,
            line: Vec::new(alloc),
        }
    }

    // Takes a byte, and tells whether the line at hand is whole with it: it ends with LF or CR LF.
    // A line that is too long whatever comes is refused before its end is read. `Memory` where a
    // growth was refused.
    pub(crate) fn take_byte(&mut self, byte: u8) -> Result<bool, LinesFault>
        ensures { TakesByte self.old byte self.new result }
    {
        if byte == b'\n' {
            self.drop_return();
            return Ok(true);
        }
        if self.line.len() > LONGEST {
            return Err(LinesFault::Line(self.refusal(LineFault::TooLong)));
        }
        self.line.push(byte)?;
        Ok(false)
    }

    // Drops a CR right before a LF, which belongs to the end of the line.
    fn drop_return(&mut self)
        ensures { self.new ≡ record self.old { line = strip_last 13 self.old.line } }
    {
        if self.line.last() == Some(&b'\r') {
            self.line.truncate(self.line.len() - 1);
        }
    }

    // The number of the line at hand.
    pub(crate) fn number(&self) -> u64
        ensures { result ≡ self.now.number }
    {
        self.number
    }

    // Whether nothing was read of the line at hand.
    pub(crate) fn is_empty(&self) -> bool
        ensures { result ≡ (length self.now.line == 0) }
    {
        self.line.is_empty()
    }

    // The identifier that the line at hand is, or the refusal of the line.
    pub(crate) fn identifier(&self) -> Result<&str, BadLine>
        ensures { MatchResult result
            (λ id. (None ≡ line_fault self.now.line) × (id.now ≡ self.now.line))
            (λ bad. (Some bad.fault ≡ line_fault self.now.line)
            × (bad.number ≡ self.now.number)) }
    {
        match identifier_in(&self.line) {
            Ok(id) => Ok(id),
            Err(fault) => Err(self.refusal(fault)),
        }
    }

    // The refusal of the line at hand.
    pub(crate) fn refusal(&self, fault: LineFault) -> BadLine
        ensures { result ≡ record { number = self.now.number; fault = fault } }
    {
        BadLine {
            number: self.number,
            fault,
        }
    }

    // Goes on to the next line.
    pub(crate) fn go_on(&mut self)
        ensures { self.new ≡ record { number = next_number self.old.number; line = [] } }
    {
        self.line.clear();
        self.number = self.number.saturating_add(1);
    }
}

// The identifier that a line is, or why it is none.
fn identifier_in(line: &[u8]) -> Result<&str, LineFault>
    ensures { MatchResult result (λ id. (None ≡ line_fault line.now) × (id.now ≡ line.now))
        (λ fault. Some fault ≡ line_fault line.now) }
{
    if line.len() > LONGEST {
        return Err(LineFault::TooLong);
    }
    if line.is_empty() {
        return Err(LineFault::Empty);
    }
    match str::from_utf8(line) {
        Ok(id) => Ok(id),
        Err(_) => Err(LineFault::NotUtf8),
    }
}
