//! Strings of JSON (RFC 8259, section 7), each seen from behind its opening quote on.
ghost use Rattle.std.specs.Prelude.{◌≡◌, ◌≢◌, ◌+◌, ◌-◌, ◌<◌, ◌≤◌, ◌↔◌, ◌++◌, ◌∷◌, [], IfSome};
ghost use Rattle.std.specs.Prelude.{IsTrue, MatchOption, is_some, None, Some, codes, drop, get_or};
ghost use Rattle.std.specs.Prelude.{length, take, ℕ, List};
ghost use Rattle.std.specs.Prelude.{true};
ghost use Rattle.std.specs.Char.{digit_value, encode_utf8, len_utf8};
ghost use Rattle.std.specs.List.{prefix_len};
ghost use Rattle.std.specs.Str.{IsCharBoundary, IsUtf8};
ghost use Rattle.json.specs.Lex.{between, in_escape, in_string, lex};
ghost use Rattle.json.specs.Run.{Escape, is_plain};
ghost use Rattle.json.specs.Text.{after_backslash, after_high, after_u, code_unit, content};
ghost use Rattle.json.specs.Text.{plain, prepend, short_escape};

/// How many bytes the rest of a string takes, its closing quote with them; None where it is no
/// string.
pub(crate) fn string_len(text: &[u8]) -> Option<usize>
    ensures value { is_some result ≡ is_some (content plain text.now) }
    ensures lexed { IfSome result
        (λ len. lex in_string text.now ≡ lex between (drop len text.now)) }
    ensures bound { IfSome result (λ len. len ≤ length text.now) }
{
    let mut at = 0;
    'parts: loop {
        let stop = plain_end(text, at);
        if stop == text.len() || text[stop] < 0x20 {
            return None;
        }
        if text[stop] == b'"' {
            return Some(stop + 1);
        }
        let (_, next) = escape(text, stop + 1)?;
        at = next;
    }
}

/// Whether a string is `id`, however it is written.
pub(crate) fn is_id(text: &[u8]) -> bool
    ensures { IsTrue result ↔ (content plain text.now ≡ Some (codes "id")) }
{
    let Some(behind) = after_letter(text, b'i') else {
        return false;
    };
    let Some(rest) = after_letter(behind, b'd') else {
        return false;
    };
    !rest.is_empty() && rest[0] == b'"'
}

// What follows a letter that a string begins with.
fn after_letter(text: &[u8], letter: u8) -> Option<&[u8]>
    requires { (letter < 128) × (is_plain letter ≡ true) }
    ensures { MatchOption result ((s : List ℕ) → content plain text.now ≢ Some (letter ∷ s))
        (λ rest. content plain text.now ≡ prepend (letter ∷ []) (content plain rest.now)) }
{
    if text.is_empty() {
        return None;
    }
    if text[0] == letter {
        return Some(&text[1..]);
    }
    if text[0] != b'\\' {
        return None;
    }
    let Some((c, next)) = escape(text, 1) else {
        return None;
    };
    if c == letter as char {
        Some(&text[next..])
    } else {
        None
    }
}

/// Writes the text of the string whose opening quote stands before a place to the front of the
/// bytes, and gives its length; None where it is no string.
///
/// A text is no longer than it is written, so that none is written over that is still to be read.
pub(crate) fn unescape(bytes: &mut [u8], start: usize) -> Option<usize>
    requires { IsUtf8 bytes.old × IsCharBoundary bytes.old start }
    ensures value { MatchOption result (content plain (drop start bytes.old) ≡ None)
        (λ len. content plain (drop start bytes.old) ≡ Some (take len bytes.new)) }
    ensures text { IfSome result (λ len. IsUtf8 (take len bytes.new)) }
    ensures len { length bytes.new ≡ length bytes.old }
{
    let mut at = start;
    let mut len = 0;
    'parts: loop {
        let stop = plain_end(bytes, at);
        if stop == bytes.len() || bytes[stop] < 0x20 {
            return None;
        }
        move_to_front(bytes, len, at, stop);
        len += stop - at;
        if bytes[stop] == b'"' {
            return Some(len);
        }
        let (c, next) = escape(bytes, stop + 1)?;
        len += put_char(bytes, len, c);
        at = next;
    }
}

// Moves the bytes from one place to another down to a third.
fn move_to_front(bytes: &mut [u8], to: usize, from: usize, until: usize)
    requires { (to ≤ from) × (from ≤ until) × (until ≤ length bytes.old) }
    ensures moved { take (to + (until - from)) bytes.new
        ≡ take to bytes.old ++ take (until - from) (drop from bytes.old) }
    ensures rest { drop until bytes.new ≡ drop until bytes.old }
    ensures len { length bytes.new ≡ length bytes.old }
{
    let mut done = 0;
    'all: while done < until - from {
        bytes[to + done] = bytes[from + done];
        done += 1;
    }
}

// Writes a character at a place, and gives how many bytes it takes.
fn put_char(bytes: &mut [u8], at: usize, c: char) -> usize
    requires { at + len_utf8 c ≤ length bytes.old }
    ensures value { result ≡ len_utf8 c }
    ensures written { take (at + result) bytes.new ≡ take at bytes.old ++ encode_utf8 c }
    ensures utf8 { IsUtf8 (encode_utf8 c) }
    ensures rest { drop (at + result) bytes.new ≡ drop (at + result) bytes.old }
    ensures len { length bytes.new ≡ length bytes.old }
{
    let mut buffer = [0; 4];
    let encoded = c.encode_utf8(&mut buffer);
    let len = encoded.len();
    bytes[at..at + len].copy_from_slice(encoded.as_bytes());
    len
}

// Where the bytes from a place on that stand for themselves end.
fn plain_end(text: &[u8], from: usize) -> usize
    requires { from ≤ length text.now }
    ensures value { result ≡ from + prefix_len is_plain (drop from text.now) }
    ensures bound { result ≤ length text.now }
{
    let mut at = from;
    'bytes: while at < text.len() && text[at] != b'"' && text[at] != b'\\' && text[at] >= 0x20 {
        at += 1;
    }
    at
}

// The character that the escape behind a backslash stands for, and where the text goes on.
fn escape(text: &[u8], at: usize) -> Option<(char, usize)>
    requires { at ≤ length text.now }
    ensures value { Escape text.now after_backslash at result }
    ensures lexed { IfSome result
        (λ c. lex in_escape (drop at text.now) ≡ lex in_string (drop c.1 text.now)) }
{
    if at == text.len() {
        return None;
    }
    if text[at] == b'u' {
        return unicode(text, at + 1);
    }
    let c = short(text[at])?;
    Some((c as char, at + 1))
}

// What the letter of a short escape stands for.
fn short(letter: u8) -> Option<u8>
    ensures value { result ≡ short_escape letter }
    ensures ascii { IfSome result (λ c. (c < 128) × (letter < 128)) }
{
    match letter {
        b'"' | b'\\' | b'/' => Some(letter),
        b'b' => Some(8),
        b'f' => Some(12),
        b'n' => Some(b'\n'),
        b'r' => Some(b'\r'),
        b't' => Some(b'\t'),
        _ => None,
    }
}

// The character that the digits behind `\u` stand for, of a surrogate with its other half.
fn unicode(text: &[u8], at: usize) -> Option<(char, usize)>
    requires { at ≤ length text.now }
    ensures value { Escape text.now after_u at result }
    ensures lexed { IfSome result
        (λ c. lex in_string (drop at text.now) ≡ lex in_string (drop c.1 text.now)) }
{
    if text.len() - at < 4 {
        return None;
    }
    let unit = code_unit(text, at)?;
    if (0xd800 <= unit) & (unit < 0xdc00) {
        return low_half(text, at + 4, unit);
    }
    let c = char::from_u32(unit)?;
    Some((c, at + 4))
}

// The character of a high surrogate and the low one that follows it.
fn low_half(text: &[u8], at: usize, high: u32) -> Option<(char, usize)>
    requires { (at ≤ length text.now) × (0xd800 ≤ high) × (high < 0xdc00) }
    ensures value { Escape text.now (after_high high) at result }
    ensures lexed { IfSome result
        (λ c. lex in_string (drop at text.now) ≡ lex in_string (drop c.1 text.now)) }
{
    if text.len() - at < 6 || !((text[at] == b'\\') & (text[at + 1] == b'u')) {
        return None;
    }
    let low = code_unit(text, at + 2)?;
    if !((0xdc00 <= low) & (low < 0xe000)) {
        return None;
    }
    let c = char::from_u32(0x10000 + (high - 0xd800) * 1024 + (low - 0xdc00))?;
    Some((c, at + 6))
}

// The code unit that four digits write.
fn code_unit(text: &[u8], at: usize) -> Option<u32>
    requires { at + 4 ≤ length text.now }
    ensures value { result
        ≡ code_unit (get_or text.now at 0) (get_or text.now (at + 1) 0)
        (get_or text.now (at + 2) 0) (get_or text.now (at + 3) 0) }
    ensures bounds { IfSome result (λ u. (u < 65536) × (get_or text.now (at + 3) 0 < 128)) }
{
    let (a, b, c, d) = (
        digit(text[at]),
        digit(text[at + 1]),
        digit(text[at + 2]),
        digit(text[at + 3]),
    );
    if (a < 16) & (b < 16) & (c < 16) & (d < 16) {
        Some(a * 4096 + b * 256 + c * 16 + d)
    } else {
        None
    }
}

// The value of a hexadecimal digit; of another byte 16 or more.
fn digit(c: u8) -> u32
    ensures value { result ≡ digit_value c }
    ensures ascii { result < 16 → c < 128 }
{
    match c {
        b'0'..=b'9' => (c - b'0') as u32,
        b'A'..=b'Z' => (c - b'A') as u32 + 10,
        b'a'..=b'z' => (c - b'a') as u32 + 10,
        _ => 36,
    }
}
