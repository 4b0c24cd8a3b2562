//! A text that is spelled as a string of JSON (RFC 8259, section 7) where it stands, so that no
//! second copy of it is held.
ghost use Rattle.std.specs.Prelude.{◌≡◌, ◌+◌, ◌^◌, ◌<◌, ◌≤◌, ◌++◌, IfNone, IfOk, IfSome, OnOk, drop};
ghost use Rattle.std.specs.Prelude.{length, take, vec_len};
ghost use Rattle.std.specs.Char.{digit_char};
ghost use Rattle.std.specs.String.{string_bytes};
ghost use Rattle.json.specs.Print.{escape as escaped, escape_byte, escape_letter};

use pt_tree::MemoryFault;

/// A text, spelled as what stands between the quotes of a string, with one text before it and one
/// behind it.
///
/// It is spelled where it stands, which gets as much longer. `Memory` where a growth was refused.
pub(crate) fn spell_between(head: &[u8], text: String, tail: &[u8]) -> Result<Vec<u8>, MemoryFault>
    ensures { IfOk result (λ line. line.items
        ≡ head.now ++ (escaped (string_bytes text) ++ tail.now)) }
{
    let mut line = text.into_bytes();
    let len = line.len();
    let Some(end) = spelled_end(&line, head.len()) else {
        // No memory is so long, so the growth would be refused.
        return Err(MemoryFault::Memory);
    };
    widen(&mut line, end, tail.len())?;
    spell_behind(line.as_mut_slice(), head, len);
    line.extend_from_slice(tail)?;
    Ok(line)
}

// Lengthens bytes to so many, with room for so many more.
fn widen(bytes: &mut Vec<u8>, end: usize, room: usize) -> Result<(), MemoryFault>
    requires { vec_len bytes.old ≤ end }
    ensures front { OnOk result (take (vec_len bytes.old) bytes.new.items ≡ bytes.old.items) }
    ensures len { OnOk result (vec_len bytes.new ≡ end) }
{
    bytes.reserve_exact((end - bytes.len()).saturating_add(room))?;
    bytes.resize(end, 0)?;
    Ok(())
}

// Spells the first so many bytes behind a text, where there is just room for both.
fn spell_behind(bytes: &mut [u8], head: &[u8], len: usize)
    requires room { length bytes.old
        ≡ length head.now + length (escaped (take len bytes.old)) }
    requires bound { len ≤ length bytes.old }
    ensures { bytes.new ≡ head.now ++ escaped (take len bytes.old) }
{
    spell(bytes, head.len(), len);
    bytes[..head.len()].copy_from_slice(head);
}

// Where a text ends that is spelled from a place on; None where that is over the largest number.
fn spelled_end(text: &[u8], from: usize) -> Option<usize>
    ensures end { IfSome result (λ end. end ≡ from + length (escaped text.now)) }
    ensures past { IfNone result (2 ^ 64 ≤ from + length (escaped text.now)) }
{
    let mut end = from;
    for byte in text {
        let (_, len) = spelling(*byte);
        end = end.checked_add(len)?;
    }
    Some(end)
}

// Spells the first so many bytes, so that they end where all the bytes do, and begin at a place.
//
// From the last on: a byte is spelled by one at least, so none is written over that is still to be
// spelled.
fn spell(bytes: &mut [u8], from: usize, len: usize)
    requires room { length bytes.old ≡ from + length (escaped (take len bytes.old)) }
    requires bound { len ≤ length bytes.old }
    ensures spelled { drop from bytes.new ≡ escaped (take len bytes.old) }
    ensures len { length bytes.new ≡ length bytes.old }
{
    let mut left = len;
    let mut at = bytes.len();
    'bytes: while left > 0 {
        left -= 1;
        let byte = bytes[left];
        at = put_spelling(bytes, at, byte);
    }
}

// Spells a byte so that it ends at a place, and gives where it begins.
fn put_spelling(bytes: &mut [u8], end: usize, byte: u8) -> usize
    requires { (length (escape_byte byte) ≤ end) × (end ≤ length bytes.old) }
    ensures start { result + length (escape_byte byte) ≡ end }
    ensures written { drop result bytes.new ≡ escape_byte byte ++ drop end bytes.old }
    ensures front { take result bytes.new ≡ take result bytes.old }
    ensures len { length bytes.new ≡ length bytes.old }
{
    let (spelled, len) = spelling(byte);
    let at = end - len;
    bytes[at..end].copy_from_slice(&spelled[..len]);
    at
}

// How a byte is spelled in a string: the first so many of these.
fn spelling(byte: u8) -> ([u8; 6], usize)
    ensures value { take result.1 result.0 ≡ escape_byte byte }
    ensures len { result.1 ≡ length (escape_byte byte) }
    ensures bound { (1 ≤ result.1) × (result.1 ≤ 6) }
{
    let letter = letter(byte);
    if letter > 0 {
        return ([b'\\', letter, 0, 0, 0, 0], 2);
    }
    if byte < 0x20 {
        return (
            [b'\\', b'u', b'0', b'0', digit(byte / 16), digit(byte % 16)],
            6,
        );
    }
    ([byte, 0, 0, 0, 0, 0], 1)
}

// The letter of a byte's short spelling behind a backslash; 0 where it has none.
fn letter(byte: u8) -> u8
    ensures { result ≡ escape_letter byte }
{
    match byte {
        b'"' | b'\\' => byte,
        8 => b'b',
        12 => b'f',
        b'\n' => b'n',
        b'\r' => b'r',
        b'\t' => b't',
        _ => 0,
    }
}

// A hex digit in lower case.
fn digit(value: u8) -> u8
    requires { value < 16 }
    ensures { result ≡ digit_char value }
{
    if value < 10 {
        b'0' + value
    } else {
        b'a' - 10 + value
    }
}
