//! Texts as they may be shown on a terminal.
ghost use Rattle.std.specs.Prelude.{◌≡◌, IfOk, string_bytes};
ghost use Rattle.std.specs.Int.{is_in_range};
ghost use Rattle.pt_messages.specs.Escaped.{code_text as text_of_code, escaped, shown_char};
ghost use Rattle.pt_messages.specs.Escaped.{is_format as is_format_char, is_seen as is_seen_char};
ghost use Rattle.pt_messages.specs.Escaped.{is_shown_so as is_char_shown_so};

use std::alloc::{AllocError, Global};

// The characters that only tell how others are shown, as one that sets their direction: Unicode's
// category Cf, from the first of each pair to its second.
const FORMATS: [(u32, u32); 21] = [
    (0xad, 0xad),
    (0x600, 0x605),
    (0x61c, 0x61c),
    (0x6dd, 0x6dd),
    (0x70f, 0x70f),
    (0x890, 0x891),
    (0x8e2, 0x8e2),
    (0x180e, 0x180e),
    (0x200b, 0x200f),
    (0x202a, 0x202e),
    (0x2060, 0x2064),
    (0x2066, 0x206f),
    (0xfeff, 0xfeff),
    (0xfff9, 0xfffb),
    (0x1_10bd, 0x1_10bd),
    (0x1_10cd, 0x1_10cd),
    (0x1_3430, 0x1_343f),
    (0x1_bca0, 0x1_bca3),
    (0x1_d173, 0x1_d17a),
    (0xe_0001, 0xe_0001),
    (0xe_0020, 0xe_007f),
];

/// A text on one line in which each character is seen: a control or format character, a blank that
/// is no space, and a space at an end of the text are `\u{..}` with their number in hex, and `\` is
/// doubled, so that two texts are never shown alike. An error where a growth was refused.
pub fn escape(alloc: Global, text: &str) -> Result<String, AllocError>
    ensures { IfOk result (λ shown. string_bytes shown ≡ escaped text.now) }
{
    let begin = text.len().saturating_sub(text.trim_start().len());
    let end = text.trim_end().len();
    let mut shown = String::with_capacity(alloc, text.len())?;
    let mut at = 0usize;
    for c in text.chars() {
        let is_inner = (begin <= at) & (at < end);
        let piece = piece_of(alloc, c, is_inner)?;
        shown.push_str(piece.as_str())?;
        at = at.saturating_add(c.len_utf8());
    }
    Ok(shown)
}

// How a character is shown, between others that are seen or at an end.
fn piece_of(alloc: Global, c: char, is_inner: bool) -> Result<String, AllocError>
    ensures { IfOk result (λ piece. string_bytes piece ≡ shown_char is_inner c) }
{
    if c == '\\' {
        return String::from_str(alloc, "\\\\");
    }
    if is_shown_so(c, is_inner) {
        let mut piece = String::new(alloc);
        piece.push(c)?;
        return Ok(piece);
    }
    code_text(alloc, c)
}

// A character by its number in hex.
fn code_text(alloc: Global, c: char) -> Result<String, AllocError>
    ensures { IfOk result (λ text. string_bytes text ≡ text_of_code c) }
{
    let code = u32::from(c);
    format!(in alloc; "\\u{{{code:x}}}")
}

// Whether a character is shown as it is: one that is seen, and a space between others.
fn is_shown_so(c: char, is_inner: bool) -> bool
    ensures { result ≡ is_char_shown_so c is_inner }
{
    is_seen(c) | ((c == ' ') & is_inner)
}

// Whether a character is neither a control or format character nor a blank.
fn is_seen(c: char) -> bool
    ensures { result ≡ is_seen_char c }
{
    !c.is_control() && !c.is_whitespace() && !is_format(c)
}

// Whether a character only tells how others are shown.
fn is_format(c: char) -> bool
    ensures { result ≡ is_format_char c }
{
    for range in &FORMATS {
        if is_between(u32::from(c), range) {
            return true;
        }
    }
    false
}

// Whether a number is neither below the first of two nor above the second.
fn is_between(number: u32, range: &(u32, u32)) -> bool
    ensures { result ≡ is_in_range range.now.0 range.now.1 number }
{
    (range.0 <= number) & (number <= range.1)
}
