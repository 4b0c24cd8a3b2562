//! Open files in memory, and the names in a directory.
ghost use Rattle.std.specs.Prelude.{◌≡◌, Some, None, drop, ⊤};
ghost use Rattle.std.specs.Option.{option_map};
ghost use Rattle.pt_folder.specs.Untold.{no_fails, untold_fails};

use crate::faults::{Faults, call_error};
use pt_folder::{Handle, Input};
use pt_memory::pieces::take_next;
use pt_tree::NamePath;
use std::io;

/// An open file: its bytes and the place where it stands; or one that was made, to write to, with
/// its path.
#[derive(Drop)]
pub struct MemFile<'a> {
    bytes: Vec<u8>,
    place: usize,
    path: Option<NamePath>,
    faults: &'a Faults,
}

impl<'a> MemFile<'a> {
    // A file that is read from its start.
    pub(crate) fn to_read(bytes: Vec<u8>, faults: &'a Faults) -> MemFile<'a>
        ensures bytes { result.bytes ≡ bytes }
        ensures place { result.place ≡ 0 }
        ensures path { result.path ≡ None }
    {
        MemFile {
            bytes,
            place: 0,
            path: None,
            faults,
        }
    }

    // A file that was made at a path.
    pub(crate) fn to_write(path: NamePath, none: Vec<u8>, faults: &'a Faults) -> MemFile<'a>
        ensures { result.path ≡ Some path }
    {
        MemFile {
            bytes: none,
            place: 0,
            path: Some(path),
            faults,
        }
    }

    // The path at which it was made, to write to.
    pub(crate) fn path(&self) -> Option<&NamePath>
        ensures { option_map (λ path. path.now) result ≡ self.now.path }
    {
        self.path.as_ref()
    }
}

impl<'a> Input for MemFile<'a> {
    ghost bytes = { λ f. Some f.bytes.items };

    ghost left = { λ f. Some (drop f.place f.bytes.items) };

    ghost reads = { λ _ _ _ _. ⊤ };

    fn read_piece(&mut self, buffer: &mut [u8]) -> io::Result<usize> {
        if self.faults.fails() || self.path.is_some() {
            return Err(call_error());
        }
        if self.place >= self.bytes.len() {
            return Ok(0);
        }
        let left = self.bytes.len() - self.place;
        let count = self.faults.share(left.min(buffer.len()));
        take_next(self.bytes.as_slice(), &mut self.place, count, buffer);
        Ok(count)
    }
}

impl<'a> Handle for MemFile<'a> {
    ghost goes = { λ _ _ _ _. ⊤ };

    ghost syncs = { λ _ _ _. ⊤ };

    ghost fails = { no_fails };

    ghost fails_law = { untold_fails _ };

    #[tactic(auto, using(std::proofs::lemmas::List::drop_min))]
    fn seek(&mut self, place: u64) -> io::Result<u64> {
        if self.faults.fails() {
            return Err(call_error());
        }
        self.place = (place as usize).min(self.bytes.len());
        Ok(place)
    }

    fn sync(&mut self) -> io::Result<()> {
        if self.faults.fails() {
            return Err(call_error());
        }
        Ok(())
    }
}
