// The digits of digests, sixteen bytes at once.
ghost use Rattle.std.specs.Prelude.{◌≡◌, ◌*◌, ◌%◌, ◌<◌, ◌≤◌, length, map, slice_index};
ghost use Rattle.std.specs.List.{All};
ghost use Rattle.hex.specs.Hex.{IsBytes, encode_lower, lower_digits};

use std::simd::prelude::*;

// How many digits a digest has, at most.
pub(crate) const MOST: usize = 128;

// Writes the bytes in hex at the front of the room, and lends that text. It is what
// `hex::encode_to_slice` writes; that looks up one digit after the other, where this computes those
// of sixteen bytes at once.
pub(crate) fn write_hex<'a>(bytes: &[u8], room: &'a mut [u8; MOST]) -> &'a [u8]
    requires whole { length bytes.now % 16 ≡ 0 }
    requires fits { 2 * length bytes.now ≤ 128 }
    ensures digits { result.now ≡ encode_lower bytes.now }
    ensures bytes { IsBytes bytes.now }
{
    for i in 0..bytes.len() / 16 {
        in_hex(u8x16::from_slice(&bytes[16 * i..])).copy_to_slice(&mut room[32 * i..]);
    }
    &room[..2 * bytes.len()]
}

// Sixteen bytes in hex: the digits of their upper halves and those of their lower halves, by turns.
#[inline(always)]
fn in_hex(bytes: u8x16) -> u8x32
    ensures { result ≡ encode_lower bytes }
{
    let upper = digits_of(bytes >> u8x16::splat(4));
    let lower = digits_of(bytes & u8x16::splat(15));
    upper.shuffle(
        lower,
        [
            0, 16, 1, 17, 2, 18, 3, 19, 4, 20, 5, 21, 6, 22, 7, 23, 8, 24, 9, 25, 10, 26, 11, 27,
            12, 28, 13, 29, 14, 30, 15, 31,
        ],
    )
}

// The digits of numbers below 16, as a table of `hex` has them: they come in two runs, from `0` and
// from `a` on. A processor of the oldest kind looks up one lane after the other, but adds and
// compares all at once.
#[inline(always)]
fn digits_of(numbers: u8x16) -> u8x16
    requires { All (λ number. number < 16) numbers }
    ensures { result ≡ map (slice_index lower_digits) numbers }
{
    let are_letters = numbers.simd_gt(u8x16::splat(9));
    numbers + are_letters.select(u8x16::splat(b'a' - 10), u8x16::splat(b'0'))
}
