//! The identifiers in the lines of a file, which is read block by block.
//!
//! Over every file by its reads: Ok gives just the identifiers in the lines of all that was read,
//! and comes only where a read gave nothing; `Line` tells the first line that is none, whatever
//! comes behind what was read; `Read` the error of a read (`ReadsIdentifiers`).
#![tactic(auto, using(crate::proofs::IdentifierLines::lines))]

ghost use Rattle.std.specs.Prelude.{◌≡◌, ◌∷◌, [], MatchResult};
ghost use Rattle.pt_cli.specs.Listing.{EndsLine, ReadsIdentifiers, TakesBytes, TakesEnd};
ghost use Rattle.pt_cli.specs.Listing.{listed_fault, texts_of};

use crate::line_reader::LineReader;
use crate::{BadLine, FileFault, LineFault};
use pt_folder::Input;
use pt_tree::BLOCK;
use std::alloc::Global;
use std::marker::Model;

// U+FEFF in UTF-8.
const BYTE_ORDER_MARK: &[u8] = b"\xef\xbb\xbf";

// Where the reading of a list stands: at which line, and the identifiers before it.
#[derive(Drop)]
struct IdentifierReader {
    alloc: Global,
    lines: LineReader,
    ids: Vec<String>,
}

impl Model for IdentifierReader {
    ghost use Rattle.std.specs.Prelude.{map};
    ghost use Rattle.std.specs.String.{string_bytes};
    ghost use Rattle.pt_cli.specs.Listing.{Reading};

    ghost Value = { Reading };

    ghost view = { λ r. record {
      number = r.lines.number;
      line = r.lines.line;
      ids = map string_bytes r.ids.items;
    } };
}

/// The identifiers in the lines of a file, from where it stands to its end. Lines end as those of
/// `names -`.
///
/// `Line` at the first line that is no identifier, with its number: as there, or else as
/// `ByteOrderMark`, where it is line 1 and begins so. Nothing is read behind the block in which
/// that shows: a line is too long as soon as it is so whatever comes. `Read` where a read answers
/// an error, with that. `Memory` where a growth was refused.
///
/// Beside the identifiers, what is held doesn't grow with the file: it is a block, and of the line
/// at hand at most 65,537 bytes.
pub fn read_identifiers<F: Input>(alloc: Global, file: &mut F) -> Result<Vec<String>, FileFault>
    ensures { ReadsIdentifiers F.reads file.old file.new (texts_of result) }
{
    let mut reader = IdentifierReader::new(alloc);
    let mut block = [0u8; BLOCK];
    // Counted as the reads of `take_all` of pt_folder (taking.rt), so that it ends whatever is
    // read.
    for _ in 0..u64::MAX {
        match file.read_piece(&mut block) {
            Ok(0) => return reader.finish(),
            Ok(count) => reader.take_piece(&block[..count])?,
            Err(error) => return Err(FileFault::Read(error)),
        }
    }
    // So many reads gave a byte each at least, and more identifiers than any memory holds.
    Err(FileFault::Memory)
}

impl IdentifierReader {
    // The beginning of a file.
    fn new(alloc: Global) -> IdentifierReader
        ensures { result ≡ record { number = 1; line = []; ids = [] } }
    {
        IdentifierReader {
            alloc,
            lines: LineReader::new(alloc),
            ids: Vec::new(alloc),
        }
    }

    // Takes the bytes of a piece, up to the end of a line that is no identifier.
    fn take_piece(&mut self, piece: &[u8]) -> Result<(), FileFault>
        ensures { TakesBytes self.old piece.now self.new result }
    {
        for byte in piece {
            self.take_byte(*byte)?;
        }
        Ok(())
    }

    // Takes a byte.
    fn take_byte(&mut self, byte: u8) -> Result<(), FileFault>
        ensures { TakesBytes self.old (byte ∷ []) self.new result }
    {
        if self.lines.take_byte(byte)? {
            return self.end_line();
        }
        Ok(())
    }

    // Takes the end of the file: what stands behind its last LF is a line too, where it isn't
    // empty.
    fn finish(mut self) -> Result<Vec<String>, FileFault>
        ensures { TakesEnd self (texts_of result) }
    {
        if !self.lines.is_empty() {
            self.end_line()?;
        }
        Ok(self.ids)
    }

    // Adds the line at hand to the identifiers, and goes on to the next; or refuses it, where it is
    // none.
    fn end_line(&mut self) -> Result<(), FileFault>
        ensures { EndsLine self.old self.old.line self.new result }
    {
        let id = listed_identifier(&self.lines)?;
        self.ids.push(String::from_str(self.alloc, id)?)?;
        self.lines.go_on();
        Ok(())
    }
}

// The identifier that the line at hand is, or the refusal of the line.
fn listed_identifier(lines: &LineReader) -> Result<&str, BadLine>
    ensures { MatchResult result
        (λ id. (None ≡ listed_fault lines.now.number lines.now.line) × (id.now ≡ lines.now.line))
        (λ bad. (Some bad.fault ≡ listed_fault lines.now.number lines.now.line)
        × (bad.number ≡ lines.now.number)) }
{
    let id = lines.identifier()?;
    if lines.number() == 1 && id.as_bytes().starts_with(BYTE_ORDER_MARK) {
        return Err(lines.refusal(LineFault::ByteOrderMark));
    }
    Ok(id)
}
