//! The open file of a folder that is read.
ghost use Rattle.std.specs.Prelude.{◌≡◌, [], false, IfErr, OnOk, OnErr};
ghost use Rattle.std.specs.Prelude.{drop as drop_items};
ghost use Rattle.std.specs.Option.{option_map};
ghost use Rattle.pt_folder.specs.Reading.{FailsToGoBack, FailsToReadOn, GoesFirst, IsNext};
ghost use Rattle.pt_folder.specs.Reading.{ReadsNext, Stands, unread_of};

use crate::bytes::{ReadBuffer, read_block};
use crate::system::{Handle, Input};
use pt_tree::{BLOCK, Block};
use std::io;

// Behind this place no whole block can be counted.
const LAST: u64 = u64::MAX - BLOCK as u64;

/// A file, the place where its next block begins, whether its end was met, and whether it may stand
/// elsewhere.
#[derive(Drop)]
pub struct FileInReading<F> {
    pub file: F,
    pub place: u64,
    pub ended: bool,
    pub lost: bool,
}

impl<F: Handle> FileInReading<F> {
    /// A file that was just opened.
    pub fn at_start(file: F) -> FileInReading<F>
        ensures { result ≡ record { file = file; place = 0; ended = false; lost = false } }
    {
        FileInReading {
            file,
            place: 0,
            ended: false,
            lost: false,
        }
    }

    /// The block becomes the next bytes, which may be read into `room` first; behind the end the
    /// system isn't asked again. On an error the block is empty, and the next call goes back to
    /// where this one began.
    pub fn read(&mut self, block: &mut Block, room: &mut ReadBuffer) -> io::Result<()>
        requires { Stands F.bytes F.left self.old }
        ensures stands { Stands F.bytes F.left self.new }
        ensures block { OnOk result (IsNext (unread_of F.bytes self.old) block.new.items) }
        ensures moved { OnOk result (unread_of F.bytes self.new
            ≡ option_map (drop_items 8192) (unread_of F.bytes self.old)) }
        ensures empty { OnErr result (block.new.items ≡ []) }
        ensures same { OnErr result (unread_of F.bytes self.new ≡ unread_of F.bytes self.old) }
        ensures reads { OnOk result (ReadsNext F.reads F.goes self.old self.new block.new.items) }
        ensures error { IfErr result (λ e. FailsToReadOn F.reads F.goes self.old e self.new) }
    {
        if self.ended {
            block.clear();
            return Ok(());
        }
        if self.place > LAST {
            block.clear();
            return Err(io::Error::from(io::ErrorKind::FileTooLarge));
        }
        if let Err(error) = self.go_back() {
            block.clear();
            return Err(error);
        }
        match read_block(&mut self.file, block, room) {
            Ok(()) => {
                self.place += block.len() as u64;
                self.ended = !block.is_full();
                Ok(())
            }
            Err(error) => {
                self.lost = true;
                Err(error)
            }
        }
    }

    // Goes to where the next block begins, if it may stand elsewhere.
    fn go_back(&mut self) -> io::Result<()>
        requires { Stands F.bytes F.left self.old }
        ensures stands { Stands F.bytes F.left self.new }
        ensures there { OnOk result (self.new.lost ≡ false) }
        ensures still { self.new ≡ record self.old { file = self.new.file; lost = self.new.lost } }
        ensures same { F.bytes self.new.file ≡ F.bytes self.old.file }
        ensures gone { OnOk result (GoesFirst F.goes self.old self.new.file) }
        ensures error { IfErr result (λ e. FailsToGoBack F.goes self.old e self.new) }
    {
        if self.lost {
            self.file.seek(self.place)?;
            self.lost = false;
        }
        Ok(())
    }
}
