//! The names of the identifiers in the lines of an input, piece by piece.
//!
//! Over every input and output: exactly the names of the lines before the first that is no
//! identifier were added, in order; `Line` tells that one and why, and Ok that there is none and
//! the input is at its end. After `Read` just the names of the whole lines were added, after
//! `Write` a front of the names, and after `Memory` the names of the whole lines in a front of the
//! input (`ListsNames`).
ghost use Rattle.std.specs.Prelude.{◌≡◌, ◌<◌, ◌++◌, [], Ok, length, OnOk};
ghost use Rattle.pt_cli.specs.Feeding.{IsFed, IsPut, Puts, ended, fed, fed_byte, finished};
ghost use Rattle.pt_cli.specs.NameList.{ListsNames, names_line};

use crate::line_reader::LineReader;
use crate::{ListFault, NamesArgs};
use pt_name::pairpath;
use pt_tree::{MemoryFault, write_out};
use std::alloc::Global;
use std::io::{Read, Write};
use std::marker::Model;

// How many bytes are read at a time.
const PIECE: usize = 65_536;

// Where the naming of an input's lines stands: at which line, and what isn't written yet.
#[derive(Drop)]
struct NameLister {
    alloc: Global,
    lines: LineReader,
    text: Vec<u8>,
}

impl Model for NameLister {
    ghost use Rattle.pt_cli.specs.Feeding.{Fed};

    ghost Value = { Fed };

    ghost view = { λ l. record {
      number = l.lines.number;
      line = l.lines.line;
      text = l.text.items;
    } };
}

/// Writes for each line of an input the pairpath of the identifier in it, a tab, and its place,
/// that of the prefix with it behind, LF. A line ends with LF or CR LF; what stands behind the last
/// LF is a line too, where it isn't empty.
///
/// `Line` at the first line that is no identifier, with its number: as `TooLong` where it has more
/// than 65,536 bytes, else as `Empty`, else as `NotUtf8`. The names of all lines before it were
/// written. `Read` where the input answers an error: each whole line before it is an identifier,
/// and their names were. `Write` where the output answers an error, or takes nothing of a piece
/// that isn't empty: a front of the names was. `Memory` where a growth was refused: the names of
/// the whole lines in a front of the input were, each an identifier.
///
/// What is held doesn't grow with the input: it is read in pieces of at most 65,536 bytes, and the
/// names of the lines that end in one are written before the next is read. Line numbers stop at
/// 2^64 - 1.
pub fn list_names<I: Read, W: Write>(
    alloc: Global,
    asked: &NamesArgs,
    input: &mut I,
    out: &mut W,
) -> Result<(), ListFault>
    ensures { ListsNames asked.now (I.remaining input.old) (I.remaining input.new)
        (W.contents out.old) (W.contents out.new) result }
{
    let mut listing = NameLister::new(alloc);
    let mut space = Vec::new(alloc);
    space.resize(PIECE, 0)?;
    let room = space.as_mut_slice();
    // Counted as the reads of `take_all` of pt_folder (taking.rt), so that it ends whatever is
    // read.
    for _ in 0..u64::MAX {
        let Ok(count) = input.read(room) else {
            return Err(ListFault::Read);
        };
        if count == 0 {
            return listing.finish(asked, out);
        }
        listing.list(asked, &room[..count], out)?;
    }
    // So many reads gave a byte each at least: no input is so long.
    Err(ListFault::Read)
}

impl NameLister {
    // The beginning of an input.
    fn new(alloc: Global) -> NameLister
        ensures { result ≡ record { number = 1; line = []; text = [] } }
    {
        NameLister {
            alloc,
            lines: LineReader::new(alloc),
            text: Vec::new(alloc),
        }
    }

    // Takes a piece of the input, and writes the names of the lines that end in it.
    fn list<W: Write>(
        &mut self,
        asked: &NamesArgs,
        piece: &[u8],
        out: &mut W,
    ) -> Result<(), ListFault>
        ensures { IsPut (fed asked.now (Ok self.old) piece.now) self.new
            (W.contents out.old) (W.contents out.new) result }
    {
        let taken = self.take_piece(asked, piece);
        if let Err(ListFault::Memory) = taken {
            return taken;
        }
        self.put(out)?;
        taken
    }

    // Takes the end of the input: what stands behind its last LF is a line too, if there is
    // something.
    fn finish<W: Write>(&mut self, asked: &NamesArgs, out: &mut W) -> Result<(), ListFault>
        ensures { IsPut (finished asked.now self.old) self.new
            (W.contents out.old) (W.contents out.new) result }
    {
        let ended = self.end(asked);
        if let Err(ListFault::Memory) = ended {
            return ended;
        }
        self.put(out)?;
        ended
    }

    // Ends the line at hand at the end of the input, if something was read of it.
    fn end(&mut self, asked: &NamesArgs) -> Result<(), ListFault>
        ensures { IsFed (finished asked.now self.old) self.new result }
    {
        if self.lines.is_empty() {
            return Ok(());
        }
        self.end_line(asked)
    }

    // Writes what isn't written yet.
    fn put<W: Write>(&mut self, out: &mut W) -> Result<(), ListFault>
        ensures { Puts self.old self.new (W.contents out.old) (W.contents out.new) result }
    {
        write_out(out, &self.text).map_err(|_| ListFault::Write)?;
        self.text.clear();
        Ok(())
    }

    // Takes the bytes of a piece.
    fn take_piece(&mut self, asked: &NamesArgs, piece: &[u8]) -> Result<(), ListFault>
        ensures { IsFed (fed asked.now (Ok self.old) piece.now) self.new result }
    {
        for byte in piece {
            self.take_byte(asked, *byte)?;
        }
        Ok(())
    }

    // Takes a byte.
    fn take_byte(&mut self, asked: &NamesArgs, byte: u8) -> Result<(), ListFault>
        ensures { IsFed (fed_byte asked.now self.old byte) self.new result }
    {
        if self.lines.take_byte(byte)? {
            return self.end_line(asked);
        }
        Ok(())
    }

    // Adds the names of the line at hand, and goes on to the next line.
    fn end_line(&mut self, asked: &NamesArgs) -> Result<(), ListFault>
        ensures { IsFed (ended asked.now self.old self.old.line) self.new result }
    {
        let id = self.lines.identifier()?;
        add_names(self.alloc, &mut self.text, asked, id.as_bytes())?;
        self.lines.go_on();
        Ok(())
    }
}

// Adds the names of an identifier that isn't empty: its pairpath, a tab, its place, LF.
fn add_names(
    alloc: Global,
    text: &mut Vec<u8>,
    asked: &NamesArgs,
    id: &[u8],
) -> Result<(), MemoryFault>
    requires { 0 < length id.now }
    ensures { OnOk result (text.new.items ≡ text.old.items ++ names_line asked.now id.now) }
{
    let mut whole = Vec::new(alloc);
    whole.extend_from_slice(asked.prefix.as_str().as_bytes())?;
    whole.extend_from_slice(id)?;
    let place = asked.layout.place_text(alloc, &whole)?;
    text.extend_from_slice(&pairpath(alloc, id)?)?;
    text.push(b'\t')?;
    text.extend_from_slice(&place)?;
    text.push(b'\n')?;
    Ok(())
}
