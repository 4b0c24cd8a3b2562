ghost use Rattle.std.specs.Prelude.{◌≡◌, ◌++◌, IfOk, OnOk};
ghost use Rattle.pt_name.specs.Clean.{clean_spelling, cleaned, pairpath_of};

use crate::hex_pair::hex_digits;
use pt_tree::MemoryFault;
use std::alloc::Global;

/// The cleaned text of an identifier, by identifier string cleaning of Pairtree 0.1.
///
/// Takes any bytes, and works byte by byte: `/` becomes `=`, `:` becomes `+` and `.` becomes `,`; a
/// byte outside hex 21 to 7e and each of `"` `*` `+` `,` `<` `=` `>` `?` `\` `^` `|` becomes `^`
/// and two hex digits in lower case; every other byte stays. `Memory` where a growth was refused.
pub fn clean(alloc: Global, id: &[u8]) -> Result<Vec<u8>, MemoryFault>
    ensures { IfOk result (λ text. text.items ≡ cleaned id.now) }
{
    let mut text = Vec::new(alloc);
    for byte in id {
        push_clean(&mut text, *byte)?;
    }
    Ok(text)
}

// Adds the spelling of one byte.
fn push_clean(text: &mut Vec<u8>, byte: u8) -> Result<(), MemoryFault>
    ensures { OnOk result (text.new.items ≡ text.old.items ++ clean_spelling byte) }
{
    match byte {
        b'/' => text.push(b'=')?,
        b':' => text.push(b'+')?,
        b'.' => text.push(b',')?,
        b'"' | b'*' | b'+' | b',' | b'<' | b'=' | b'>' | b'?' | b'\\' | b'^' | b'|' => push_caret(
            text, byte,
        )?,
        b'!'..=b'~' => text.push(byte)?,
        _ => push_caret(text, byte)?,
    }
    Ok(())
}

// Adds `^` and the two digits of one byte.
fn push_caret(text: &mut Vec<u8>, byte: u8) -> Result<(), MemoryFault>
    ensures { OnOk result (text.new.items ≡ text.old.items
        ++ Rattle.pt_name.specs.Clean.caret_spelling byte) }
{
    let [high, low] = hex_digits(byte);
    text.extend_from_slice(&[b'^', high, low])?;
    Ok(())
}

/// The pairpath of an identifier, by Pairtree 0.1: its cleaned text in pieces of two characters,
/// the last of one or two, with `/` between.
///
/// Empty for the empty identifier. `Memory` where a growth was refused.
pub fn pairpath(alloc: Global, id: &[u8]) -> Result<Vec<u8>, MemoryFault>
    ensures { IfOk result (λ path. path.items ≡ pairpath_of id.now) }
{
    let text = clean(alloc, id)?;
    let mut path = Vec::new(alloc);
    for (i, character) in text.iter().enumerate() {
        if i > 0 && i % 2 == 0 {
            path.push(b'/')?;
        }
        path.push(*character)?;
    }
    Ok(path)
}
