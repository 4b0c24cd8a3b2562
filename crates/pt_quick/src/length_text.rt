//! The text of a file's length, which is read in the place of its bytes.
//!
//! It is the length in decimal digits, at most twenty. Where the length is over the greatest that
//! is carried, twenty zeros stand behind them: so a walk that carries files of at most
//! `LONGEST_TEXT` bytes refuses just the files that one over the files themselves refuses.
ghost use Rattle.std.specs.Prelude.{◌≡◌, ◌++◌, drop, length, min, take};
ghost use Rattle.pt_quick.specs.Measured.{text_of_length};
ghost use Rattle.pt_quick.specs.LengthText.{IsTextOf, rest_in, text_in};

use arrayvec::ArrayVec;

/// How many bytes the text of a length has at most that isn't over the greatest.
pub const LONGEST_TEXT: u64 = 20;

// What stands behind the digits of a length that is over it.
const MARK: &[u8] = b"00000000000000000000";

/// The text of a length, and the place where it is read on.
#[derive(Drop)]
pub struct LengthText {
    text: ArrayVec<u8, 40>,
    place: usize,
}

impl LengthText {
    /// The text of a length, at its start: its digits, and a mark behind them where it is over
    /// `longest`.
    pub(crate) fn of(count: u64, longest: u64) -> LengthText
        ensures { IsTextOf longest count result }
    {
        LengthText {
            text: text_of(count, longest),
            place: 0,
        }
    }

    /// How many bytes it has.
    pub(crate) fn len(&self) -> usize
        ensures { result ≡ length (text_in self.now) }
    {
        self.text.len()
    }

    /// Puts its next bytes into a buffer, as many as there is room for, and gives how many.
    pub(crate) fn read(&mut self, buffer: &mut [u8]) -> usize
        ensures count { result ≡ min (length (rest_in self.old)) (length buffer.new) }
        ensures given { rest_in self.old ≡ take result buffer.new ++ rest_in self.new }
        ensures text { text_in self.new ≡ text_in self.old }
    {
        let rest = &self.text.as_slice()[self.place.min(self.text.len())..];
        let count = rest.len().min(buffer.len());
        buffer[..count].copy_from_slice(&rest[..count]);
        self.place += count;
        count
    }

    /// Goes to a place, counted from its start.
    pub(crate) fn go_to(&mut self, place: u64)
        ensures rest { rest_in self.new ≡ drop place (text_in self.old) }
        ensures text { text_in self.new ≡ text_in self.old }
    {
        self.place = (place as usize).min(self.text.len());
    }
}

// The text of a length.
fn text_of(count: u64, longest: u64) -> ArrayVec<u8, 40>
    ensures { result.items ≡ text_of_length longest count }
{
    let mut text = ArrayVec::new();
    let mut digits = itoa::Buffer::new();
    text.try_extend_from_slice(digits.format(count).as_bytes())
        .unwrap();
    if longest < count {
        text.try_extend_from_slice(MARK).unwrap();
    }
    text
}
