ghost use Rattle.std.specs.Prelude.{◌≡◌, ◌++◌, ◌<◌, length, take, IfOk, OnOk};
ghost use Rattle.pt_name.specs.Place.{encoded_spelling, encoded_of, last_name_of, digest_text, shortened};

use crate::hex_pair::hex_digits;
use pt_tree::MemoryFault;
use sha2::{Digest, Sha256};
use std::alloc::Global;

// How long an encoding may be before it is shortened.
const LONGEST: usize = 100;

/// The identifier as extension 0003 encodes it, without shortening: `A-Z a-z 0-9 - _` stand as they
/// are, every other byte becomes `%` and two hex digits in lower case.
///
/// Takes any bytes. `Memory` where a growth was refused.
pub fn encoded(alloc: Global, id: &[u8]) -> Result<Vec<u8>, MemoryFault>
    ensures { IfOk result (λ text. text.items ≡ encoded_of id.now) }
{
    let mut text = Vec::new(alloc);
    for byte in id {
        push_encoded(&mut text, *byte)?;
    }
    Ok(text)
}

// Adds the spelling of one byte.
fn push_encoded(text: &mut Vec<u8>, byte: u8) -> Result<(), MemoryFault>
    ensures { OnOk result (text.new.items ≡ text.old.items ++ encoded_spelling byte) }
{
    match byte {
        b'A'..=b'Z' | b'a'..=b'z' | b'0'..=b'9' | b'-' | b'_' => text.push(byte)?,
        _ => {
            let [high, low] = hex_digits(byte);
            text.extend_from_slice(&[b'%', high, low])?;
        }
    }
    Ok(())
}

/// The last name of the place of an identifier that isn't empty, by extension 0003: its encoding,
/// or, where that has more than 100 characters, the first 100 of it, `-` and the 64 digits of the
/// identifier's SHA-256.
///
/// Takes any bytes. `Memory` where a growth was refused.
pub fn last_name(alloc: Global, id: &[u8]) -> Result<Vec<u8>, MemoryFault>
    requires { 0 < length id.now }
    ensures { IfOk result (λ name. name.items ≡ last_name_of id.now) }
{
    last_name_with(alloc, id, &digest_digits(id))
}

// The last name, from the digits of the identifier's SHA-256.
pub(crate) fn last_name_with(
    alloc: Global,
    id: &[u8],
    digits: &[u8; 64],
) -> Result<Vec<u8>, MemoryFault>
    requires { digits.now ≡ digest_text id.now }
    ensures { IfOk result (λ name. name.items ≡ last_name_of id.now) }
{
    let mut name = encoded(alloc, front(id))?;
    shorten(&mut name, digits)?;
    Ok(name)
}

// Cuts an encoding that is too long, and puts the digits of its identifier behind it.
fn shorten(encoding: &mut Vec<u8>, digits: &[u8; 64]) -> Result<(), MemoryFault>
    ensures { OnOk result (encoding.new.items ≡ shortened encoding.old.items digits.now) }
{
    if encoding.len() > LONGEST {
        encoding.truncate(LONGEST);
        encoding.push(b'-')?;
        encoding.extend_from_slice(digits)?;
    }
    Ok(())
}

// The front of an identifier that is enough for its last name: each byte is spelled by one at
// least, so what follows changes nothing of the first 100. So no more is held, however long it is.
fn front(id: &[u8]) -> &[u8]
    ensures { result.now ≡ take 101 id.now }
{
    &id[..id.len().min(LONGEST + 1)]
}

// The SHA-256 of an identifier, as hex digits in lower case.
pub(crate) fn digest_digits(id: &[u8]) -> [u8; 64]
    ensures { result ≡ digest_text id.now }
{
    let mut digits = [0; 64];
    hex::encode_to_slice(Sha256::digest(id), &mut digits).unwrap();
    digits
}
