//! The names in a directory in memory.
ghost use Rattle.std.specs.Prelude.{◌≡◌, ◌≤◌, ◌<◌, Some, IfOk, IfSome, drop, length, map, ⊤};
ghost use Rattle.std.specs.List.{flat_map};
ghost use Rattle.pt_folder.specs.Names.{ended};

use crate::faults::{Faults, call_error};
use pt_folder::Input;
use pt_memory::pieces::{add_name, take_next};
use pt_tree::Listing;
use std::alloc::{AllocError, Global};
use std::io;

/// The names in a directory, a NUL behind each, and the place where they are read on. A read gives
/// whole names.
#[derive(Drop)]
pub struct MemNames<'a> {
    bytes: Vec<u8>,
    place: usize,
    faults: &'a Faults,
}

impl<'a> MemNames<'a> {
    // The names of a listing, from the first.
    pub(crate) fn of(
        alloc: Global,
        listing: &Listing,
        faults: &'a Faults,
    ) -> io::Result<MemNames<'a>>
        ensures place { IfOk result (λ d. d.place ≡ 0) }
        ensures bytes { IfOk result
            (λ d. d.bytes.items ≡ flat_map ended (map (λ item. item.0) listing.now)) }
    {
        match names_of(alloc, listing) {
            Ok(bytes) => Ok(MemNames {
                bytes,
                place: 0,
                faults,
            }),
            Err(_) => Err(io::Error::from(io::ErrorKind::OutOfMemory)),
        }
    }
}

impl<'a> Input for MemNames<'a> {
    ghost bytes = { λ d. Some d.bytes.items };

    ghost left = { λ d. Some (drop d.place d.bytes.items) };

    ghost reads = { λ _ _ _ _. ⊤ };

    fn read_piece(&mut self, buffer: &mut [u8]) -> io::Result<usize> {
        if self.faults.fails() {
            return Err(call_error());
        }
        if self.place >= self.bytes.len() {
            return Ok(0);
        }
        let rest = &self.bytes[self.place..];
        let Some(count) = whole(&rest[..rest.len().min(buffer.len())]) else {
            return Err(io::Error::from(io::ErrorKind::InvalidInput));
        };
        take_next(self.bytes.as_slice(), &mut self.place, count, buffer);
        Ok(count)
    }
}

// How many of these bytes are whole names, if any are.
fn whole(bytes: &[u8]) -> Option<usize>
    ensures some { IfSome result (λ n. 0 < n) }
    ensures most { IfSome result (λ n. n ≤ length bytes.now) }
{
    for i in 0..bytes.len() {
        let count = bytes.len() - i;
        if bytes[count - 1] == 0 {
            return Some(count);
        }
    }
    None
}

// The names of a listing, a NUL behind each.
fn names_of(alloc: Global, listing: &Listing) -> Result<Vec<u8>, AllocError>
    ensures { IfOk result
        (λ bytes. bytes.items ≡ flat_map ended (map (λ item. item.0) listing.now)) }
{
    let mut bytes = Vec::new(alloc);
    for i in 0..listing.len() {
        let Some((name, _)) = listing.get(i) else {
            unreachable!()
        };
        add_name(&mut bytes, name)?;
    }
    Ok(bytes)
}
