ghost use Rattle.std.specs.Prelude.{◌≡◌, ◌<◌, length, IfErr, IfOk, IfSome, MatchOption};
ghost use Rattle.std.specs.Prelude.{string_bytes};
ghost use Rattle.hex.specs.Hex.{hex_digit_value};
ghost use Rattle.pt_name.specs.Reading.{GivesReading, Reads, RefusesText, before, hex_value};
ghost use Rattle.pt_name.specs.Reading.{read_character, reading_of, unclean_number};

use std::alloc::{AllocFailed, Global};
use thiserror::Error;

/// Why a text is no identifier.
#[derive(Clone, Copy, Debug, PartialEq, Eq, Error)]
pub enum UncleanFault {
    /// It reads nothing: a `^` isn't followed by two hex digits, or a byte lies outside hex 21 to
    /// 7e.
    #[error("the text has no reading")]
    Malformed,
    /// It reads bytes that aren't UTF-8.
    #[error("the text reads bytes that are not UTF-8")]
    NotUtf8,
    /// A growth was refused.
    #[error("out of memory")]
    Memory,
}

impl UncleanFault {
    /// The fault's number: 1 `Malformed`, 2 `NotUtf8`, 3 `Memory`.
    pub fn number(&self) -> u8
        ensures { result ≡ unclean_number self.now }
    {
        match self {
            UncleanFault::Malformed => 1,
            UncleanFault::NotUtf8 => 2,
            UncleanFault::Memory => 3,
        }
    }
}

impl<T: Drop> From<AllocFailed<T>> for UncleanFault {
    ghost use Rattle.std.specs.Prelude.{◌≡◌};
    ghost use Rattle.pt_name.specs.declared.reading.UncleanFault.TheVariants.{Memory};

    ghost from_gives = { λ _ e. e ≡ Memory };

    fn from(_: AllocFailed<T>) -> Self {
        UncleanFault::Memory
    }
}

/// The identifier that a cleaned text reads, leniently: `^` and two hex digits of either case are
/// that byte; `=` `+` `,` are `/` `:` `.`; every other byte from hex 21 to 7e is itself. It gives
/// back what `clean` of Pairtree 0.1 wrote, and takes characters that stand uncleaned.
///
/// `Malformed` exactly where the text reads nothing, `NotUtf8` exactly where it reads bytes that
/// aren't UTF-8: the whole text is read before UTF-8 is tested. `Memory` where a growth was
/// refused.
pub fn unclean(alloc: Global, text: &[u8]) -> Result<String, UncleanFault>
    ensures reads { IfOk result (λ id. Reads text.now (string_bytes id)) }
    ensures refused { IfErr result (RefusesText text.now) }
    ensures exact { GivesReading (reading_of text.now) result }
{
    let mut bytes = Vec::new(alloc);
    let mut rest = text;
    while !rest.is_empty() {
        let Some((byte, after)) = first_byte(rest) else {
            return Err(UncleanFault::Malformed);
        };
        bytes.push(byte)?;
        rest = after;
    }
    match String::from_utf8(bytes) {
        Ok(id) => Ok(id),
        Err(_) => Err(UncleanFault::NotUtf8),
    }
}

// The byte that the front of a text spells, and what follows.
fn first_byte(text: &[u8]) -> Option<(u8, &[u8])>
    requires { 0 < length text.now }
    ensures reading { MatchOption result (reading_of text.now ≡ None)
        (λ found. reading_of text.now ≡ before (Some found.0) (reading_of found.1.now)) }
    ensures shorter { IfSome result (λ found. length found.1.now < length text.now) }
{
    match text {
        [b'^', high, low, rest @ ..] => Some((byte_of_digits(*high, *low)?, rest)),
        [character, rest @ ..] => Some((byte_of_character(*character)?, rest)),
        [] => None,
    }
}

// The byte that a character stands for.
fn byte_of_character(character: u8) -> Option<u8>
    ensures { result ≡ read_character character }
{
    match character {
        b'=' => Some(b'/'),
        b'+' => Some(b':'),
        b',' => Some(b'.'),
        b'^' => None,
        b'!'..=b'~' => Some(character),
        _ => None,
    }
}

// The byte of two hex digits of either case.
fn byte_of_digits(high: u8, low: u8) -> Option<u8>
    ensures { result ≡ hex_value high low }
{
    let (high, low) = (digit_value(high)?, digit_value(low)?);
    Some(16 * high + low)
}

// The value of a hex digit of either case.
fn digit_value(digit: u8) -> Option<u8>
    ensures value { result ≡ hex_digit_value digit }
    ensures small { IfSome result (λ value. value < 16) }
{
    match digit {
        b'A'..=b'F' => Some(digit - b'A' + 10),
        b'a'..=b'f' => Some(digit - b'a' + 10),
        b'0'..=b'9' => Some(digit - b'0'),
        _ => None,
    }
}
