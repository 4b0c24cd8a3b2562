// A short text, which is held in the value itself.
ghost use Rattle.std.specs.Prelude.{◌≡◌, ◌≢◌, ◌+◌, ◌++◌, ◌-◌, ◌<◌, ◌≤◌, ◌∷◌, [], drop, length};
ghost use Rattle.std.specs.Prelude.{replicate, take, IfSome, MatchBool, MatchOption, OnOk};
ghost use Rattle.std.specs.Str.{bytes_eq};
ghost use Rattle.std.specs.Vec.{vec_capacity};
ghost use Rattle.std.specs.Int.{from_le_bytes, to_le_bytes, w64};
ghost use Rattle.pt_tree.specs.Agree.{AgreeIn, eight_from};

use crate::MemoryFault;

// How many bytes it has at most: as many as fit beside their number and a slash in a name of 24
// bytes.
pub(crate) const SHORT: usize = 21;

// How many bytes the array has: the slash and the text.
pub(crate) const ROOM: usize = 22;

// For at most so many short names zeros are made at once: a long name cuts off what is left of
// them.
const AHEAD: usize = 16;

// A text of at most 21 bytes. The array has a slash, then the text, then zeros: in a path most
// names come behind a slash.
#[derive(Drop)]
pub(crate) struct Short {
    len: u8,
    bytes: [u8; ROOM],
    ghost within: { len ≤ 21 },
    ghost slashed: { take 1 bytes ≡ 47 ∷ [] },
    ghost padded: { drop len (drop 1 bytes) ≡ replicate (21 - len) 0 },
}

impl Short {
    ghost use Rattle.pt_tree.specs.Short.{short_bytes};

    // The text of these bytes; None where there are more than 21.
    pub(crate) fn of(bytes: &[u8]) -> Option<Short>
        ensures { MatchOption result (21 < length bytes.now) (λ s. short_bytes s ≡ bytes.now) }
    {
        if bytes.len() > SHORT {
            return None;
        }
        let mut held = [0; ROOM];
        held[0] = b'/';
        held[1..=bytes.len()].copy_from_slice(bytes);
        Some(Short {
            len: bytes.len() as u8,
            bytes: held,
        })
    }

    // A second one of the same bytes.
    pub(crate) fn copy(&self) -> Short
        ensures { result ≡ self.now }
    {
        Short {
            len: self.len,
            bytes: by_pieces(&self.bytes),
        }
    }

    // Adds the bytes to a text, as `extend_from_slice` of `bytes` does.
    pub(crate) fn add_to(&self, text: &mut Vec<u8>) -> Result<(), MemoryFault>
        ensures { OnOk result (text.new.items ≡ text.old.items ++ short_bytes self.now) }
    {
        self.add_from(1, text)
    }

    // Adds a slash and the bytes to a text.
    pub(crate) fn add_behind_slash(&self, text: &mut Vec<u8>) -> Result<(), MemoryFault>
        ensures { OnOk result (text.new.items ≡ text.old.items ++ 47 ∷ short_bytes self.now) }
    {
        self.add_from(0, text)
    }

    // Adds what stands from a place on, as `extend_from_slice` of it does: all up to the array's
    // end is copied, a length that the compiler knows, and the text is cut behind the bytes. It
    // asks for room for all that is copied.
    #[inline(always)]
    fn add_from(&self, start: usize, text: &mut Vec<u8>) -> Result<(), MemoryFault>
        requires { start ≤ 1 }
        ensures { OnOk result (text.new.items
            ≡ text.old.items ++ take (1 + self.now.len - start) (drop start self.now.bytes)) }
    {
        text.extend_from_slice(&self.bytes[start..])?;
        let end = text.len() - (SHORT - self.len as usize);
        text.truncate(end);
        Ok(())
    }

    // Puts a slash and the bytes over the first of some zeros, and says how many they are: the
    // whole array is put there, which ends in zeros. None where the zeros are fewer than the array;
    // they stay then.
    pub(crate) fn put_behind_slash(&self, zeros: &mut [u8]) -> Option<usize>
        ensures bytes { MatchOption result (length zeros.old < 22)
            (λ n. take n zeros.new ≡ 47 ∷ short_bytes self.now) }
        ensures within { IfSome result (λ n. n ≤ length zeros.new) }
        ensures size { length zeros.new ≡ length zeros.old }
    {
        let front = zeros.first_chunk_mut::<ROOM>()?;
        *front = self.bytes;
        Some(1 + self.len as usize)
    }

    // Whether it has the same bytes as another, as `==` of `bytes`: the whole arrays are compared,
    // which have the same slash in front and zeros behind.
    pub(crate) fn same(&self, other: &Short) -> bool
        ensures { result ≡ bytes_eq (short_bytes self.now) (short_bytes other.now) }
    {
        self.len == other.len && same_arrays(&self.bytes, &other.bytes)
    }

    // The bytes.
    pub(crate) fn bytes(&self) -> &[u8]
        ensures { result.now ≡ short_bytes self.now }
    {
        &self.bytes[1..=self.len as usize]
    }
}

// Adds zeros to a text, over which short names can be put: for so many, for 16 at most, and no more
// than it has room for, so that it doesn't grow.
pub(crate) fn add_zeros(text: &mut Vec<u8>, names: usize)
    ensures kept { take (length text.old.items) text.new.items ≡ text.old.items }
    ensures within { length text.new.items ≤ vec_capacity text.old }
{
    let free = text.capacity() - text.len();
    let zeros = free.min(ROOM * names.min(AHEAD));
    let _ = text.resize(text.len() + zeros, 0);
}

// The array, copied by pieces of 2, 4 and 16 bytes. A name is handed on by value, in registers, and
// these pieces fit where the array stands in it; as a whole the compiler takes it into others,
// which it puts down in memory and takes up again.
fn by_pieces(held: &[u8; ROOM]) -> [u8; ROOM]
    ensures { result ≡ held.now }
{
    let mut bytes = [0; ROOM];
    bytes[..2].copy_from_slice(&held[..2]);
    bytes[2..6].copy_from_slice(&held[2..6]);
    bytes[6..].copy_from_slice(&held[6..]);
    bytes
}

// The equality of two arrays, by three words that reach over all bytes. No word ends it, so that no
// branch hangs on the bytes.
fn same_arrays(a: &[u8; ROOM], b: &[u8; ROOM]) -> bool
    ensures { result ≡ bytes_eq a.now b.now }
{
    same_words(a, b, 0) & same_words(a, b, 8) & same_words(a, b, ROOM - 8)
}

// Whether two arrays have the same word of eight bytes from a place on.
fn same_words(a: &[u8; ROOM], b: &[u8; ROOM], from: usize) -> bool
    requires { from ≤ 14 }
    ensures { MatchBool result (AgreeIn a.now b.now from (from + 8)) (a.now ≢ b.now) }
{
    word(a, from) == word(b, from)
}

// The word of eight bytes from a place on, which tells them.
fn word(bytes: &[u8; ROOM], from: usize) -> u64
    requires { from ≤ 14 }
    ensures value { result ≡ from_le_bytes w64 (eight_from bytes.now from) }
    ensures told { to_le_bytes w64 result ≡ eight_from bytes.now from }
{
    u64::from_le_bytes([
        bytes[from],
        bytes[from + 1],
        bytes[from + 2],
        bytes[from + 3],
        bytes[from + 4],
        bytes[from + 5],
        bytes[from + 6],
        bytes[from + 7],
    ])
}
