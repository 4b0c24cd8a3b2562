//! The bytes of files, which are not kept but made when they are read.

ghost use Rattle.std.specs.Prelude.{◌≤◌, length};

use crate::draw::Draw;
use std::alloc::{AllocError, Global};

// So many places of the pool are one where files begin, and so many bytes are given at a time at
// most.
const PLACES: usize = 65_536;

const PIECE: usize = 8192;

/// The bytes of a file: so many, those of the pool from a place on; its first eight are a number of
/// its own.
#[derive(Clone, Copy)]
pub struct Content {
    pub len: u64,
    place: u64,
    own: u64,
}

impl Content {
    /// As many bytes as that, drawn.
    pub fn of(len: u64, draw: &mut Draw) -> Content {
        let own = draw.next();
        Content {
            len,
            place: own >> 32,
            own,
        }
    }

    /// A text of at most eight bytes.
    pub fn of_text(text: &str) -> Content {
        let mut own = [0; 8];
        for (byte, letter) in own.iter_mut().zip(text.as_bytes()) {
            *byte = *letter;
        }
        Content {
            len: text.len().min(8) as u64,
            place: 0,
            own: u64::from_le_bytes(own),
        }
    }

    /// Puts the bytes from a place on into a buffer, and gives how many they are: none only at the
    /// end.
    pub fn fill(&self, pool: &[u8], from: u64, buffer: &mut [u8]) -> usize
        ensures { result ≤ length buffer.new }
    {
        let left = self.len.saturating_sub(from) as usize;
        let count = left.min(buffer.len()).min(PIECE);
        let start = (self.place.wrapping_add(from) % PLACES as u64) as usize;
        let Some(piece) = pool.get(start..start.saturating_add(count)) else {
            return 0;
        };
        buffer[..count].copy_from_slice(piece);
        if from == 0 {
            for (byte, own) in buffer[..count].iter_mut().zip(self.own.to_le_bytes()) {
                *byte = own;
            }
        }
        count
    }
}

/// The pool that all files have their bytes from.
pub fn pool(alloc: Global, seed: u64) -> Result<Vec<u8>, AllocError> {
    let mut draw = Draw::of(seed);
    let mut pool = Vec::with_capacity(alloc, PLACES + PIECE)?;
    for _ in 0..(PLACES + PIECE) / 8 {
        pool.extend_from_slice(&draw.next().to_le_bytes())?;
    }
    Ok(pool)
}
