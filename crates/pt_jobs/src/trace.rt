//! A digest of numbers and bytes, quick to make and of no use against an adversary.

use std::cell::Cell;

/// The number of some bytes.
pub fn mark(bytes: &[u8]) -> u64 {
    with_bytes(0, bytes)
}

// A number after some bytes, eight of them at a time.
fn with_bytes(before: u64, bytes: &[u8]) -> u64 {
    let mut state = with(before, bytes.len() as u64);
    let (words, rest) = bytes.as_chunks::<8>();
    for word in words {
        state = with(state, u64::from_le_bytes(*word));
    }
    for byte in rest {
        state = with(state, u64::from(*byte));
    }
    state
}

// A number after one more.
fn with(state: u64, number: u64) -> u64 {
    (state ^ number)
        .wrapping_mul(0x9E37_79B9_7F4A_7C15)
        .rotate_left(29)
}

/// What was traced up to now.
#[derive(Drop)]
pub struct Trace {
    state: Cell<u64>,
}

impl Trace {
    /// Nothing yet.
    pub fn new() -> Trace {
        Trace {
            state: Cell::new(0),
        }
    }

    /// A number.
    pub fn note(&self, number: u64) {
        self.state.set(with(self.state.get(), number));
    }

    /// Bytes.
    pub fn feed(&self, bytes: &[u8]) {
        self.state.set(with_bytes(self.state.get(), bytes));
    }

    /// The number of all of it.
    pub fn digest(&self) -> u64 {
        self.state.get()
    }
}
