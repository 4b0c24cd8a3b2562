//! An open file of a system that is seen by lengths.
ghost use Rattle.pt_folder.specs.Untold.{no_fails, untold_fails};
ghost use Rattle.pt_quick.specs.SeenFile.{bytes_seen, goes_seen, left_seen, reads_seen, syncs_seen};

use crate::length_text::LengthText;
use pt_folder::{Handle, Input};
use std::io;

/// An open file: the system's own, or the text of the length of one that isn't opened.
#[derive(Drop)]
pub enum SeenFile<F> {
    Own(F),
    Text(LengthText),
}

impl<F: Input> Input for SeenFile<F> {
    ghost bytes = { bytes_seen F.bytes };

    ghost left = { left_seen F.left };

    ghost reads = { reads_seen F.reads };

    fn read_piece(&mut self, buffer: &mut [u8]) -> io::Result<usize> {
        match self {
            SeenFile::Own(file) => file.read_piece(buffer),
            SeenFile::Text(text) => Ok(text.read(buffer)),
        }
    }
}

impl<F: Handle> Handle for SeenFile<F> {
    ghost goes = { goes_seen F.goes };

    ghost syncs = { syncs_seen F.syncs };

    ghost fails = { no_fails };

    ghost fails_law = { untold_fails _ };

    fn seek(&mut self, place: u64) -> io::Result<u64> {
        match self {
            SeenFile::Own(file) => file.seek(place),
            SeenFile::Text(text) => {
                text.go_to(place);
                Ok(place)
            }
        }
    }

    fn sync(&mut self) -> io::Result<()> {
        match self {
            SeenFile::Own(file) => file.sync(),
            SeenFile::Text(_) => Ok(()),
        }
    }
}
