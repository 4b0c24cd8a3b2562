//! Numbers and the three literals of JSON (RFC 8259, sections 3 and 6).
ghost use Rattle.std.specs.Prelude.{◌≡◌, ◌≢◌, ◌<◌, ◌≤◌, ◌||◌, IfSome, drop, get_or, length};
ghost use Rattle.std.specs.Prelude.{option_map};
ghost use Rattle.std.specs.Char.{is_ascii_digit};
ghost use Rattle.std.specs.List.{prefix_len};
ghost use Rattle.json.specs.Word.{after_digits, after_exponent, after_fraction, after_minus};
ghost use Rattle.json.specs.Word.{after_number, after_sign, after_whole, ends_word, head};
ghost use Rattle.json.specs.Word.{is_operator, is_space, literal, number_before, word};
ghost use Rattle.pt_extra.specs.Tokens.{is_inner, token_of};

use crate::lexemes::Token;

/// The token of the word that a text begins with: a number, or one of the three literals.
pub(crate) fn word(text: &[u8]) -> Token<'_>
    ensures { token_of result ≡ word text.now }
{
    match first(text) {
        b't' => literal(text, b"true", Token::Bool(true)),
        b'f' => literal(text, b"false", Token::Bool(false)),
        b'n' => literal(text, b"null", Token::Null),
        _ => number(text),
    }
}

/// How many bytes of a text come before the first that ends a word.
pub(crate) fn word_len(text: &[u8]) -> usize
    ensures value { result ≡ prefix_len is_inner text.now }
    ensures bound { result ≤ length text.now }
{
    let mut len = 0;
    'bytes: while len < text.len() && !is_delimiter(text[len]) {
        len += 1;
    }
    len
}

// A token, if a text begins with its name and the word ends there.
fn literal<'a>(text: &[u8], name: &[u8], token: Token<'a>) -> Token<'a>
    ensures { token_of result ≡ literal name.now (token_of token.entry) text.now }
{
    if text.starts_with(name) && is_delimiter(byte_at(text, name.len())) {
        token
    } else {
        Token::Bad
    }
}

// The number that a text begins with.
fn number(text: &[u8]) -> Token<'_>
    ensures { token_of result ≡ number_before text.now (after_number text.now) }
{
    match after_number(text) {
        Some(rest) if is_delimiter(first(rest)) => {
            Token::Number(&text[..text.len() - rest.len()])
        }
        _ => Token::Bad,
    }
}

// What follows the number that a text begins with.
fn after_number(text: &[u8]) -> Option<&[u8]>
    ensures value { option_map (λ rest. rest.now) result ≡ after_number text.now }
    ensures bound { IfSome result (λ rest. length rest.now ≤ length text.now) }
{
    let point = after_whole(after_minus(text))?;
    let power = after_fraction(point)?;
    after_exponent(power)
}

fn after_minus(text: &[u8]) -> &[u8]
    ensures value { result.now ≡ after_minus text.now }
    ensures bound { length result.now ≤ length text.now }
{
    if first(text) == b'-' {
        &text[1..]
    } else {
        text
    }
}

fn after_whole(text: &[u8]) -> Option<&[u8]>
    ensures value { option_map (λ rest. rest.now) result ≡ after_whole text.now }
    ensures bound { IfSome result (λ rest. length rest.now ≤ length text.now) }
{
    if first(text) == b'0' {
        Some(&text[1..])
    } else {
        after_digits(text)
    }
}

fn after_fraction(text: &[u8]) -> Option<&[u8]>
    ensures value { option_map (λ rest. rest.now) result ≡ after_fraction text.now }
    ensures bound { IfSome result (λ rest. length rest.now ≤ length text.now) }
{
    if first(text) == b'.' {
        after_digits(&text[1..])
    } else {
        Some(text)
    }
}

fn after_exponent(text: &[u8]) -> Option<&[u8]>
    ensures value { option_map (λ rest. rest.now) result ≡ after_exponent text.now }
    ensures bound { IfSome result (λ rest. length rest.now ≤ length text.now) }
{
    let power = first(text);
    if (power == b'e') | (power == b'E') {
        after_digits(after_sign(&text[1..]))
    } else {
        Some(text)
    }
}

fn after_sign(text: &[u8]) -> &[u8]
    ensures value { result.now ≡ after_sign text.now }
    ensures bound { length result.now ≤ length text.now }
{
    let sign = first(text);
    if (sign == b'-') | (sign == b'+') {
        &text[1..]
    } else {
        text
    }
}

// What follows the digits, at least one, that a text begins with.
fn after_digits(text: &[u8]) -> Option<&[u8]>
    ensures value { option_map (λ rest. rest.now) result ≡ after_digits text.now }
    ensures bound { IfSome result (λ rest. length rest.now ≤ length text.now) }
{
    match digits_len(text) {
        0 => None,
        len => Some(&text[len..]),
    }
}

// How many digits a text begins with.
fn digits_len(text: &[u8]) -> usize
    ensures value { result ≡ prefix_len is_ascii_digit text.now }
    ensures bound { result ≤ length text.now }
{
    let mut len = 0;
    'digits: while len < text.len() && text[len].is_ascii_digit() {
        len += 1;
    }
    len
}

// Whether a byte ends a word.
fn is_delimiter(c: u8) -> bool
    ensures { result ≡ (is_operator c || is_space c) }
{
    let operator = (c == b'{')
        | (c == b'}')
        | (c == b'[')
        | (c == b']')
        | (c == b':')
        | (c == b',');
    let space = (c == b' ') | (c == b'\t') | (c == b'\n') | (c == b'\r');
    operator | space
}

// The first byte, or a space where there is none.
fn first(text: &[u8]) -> u8
    ensures value { result ≡ head text.now }
    ensures some { result ≢ 32 → 0 < length text.now }
{
    byte_at(text, 0)
}

// The byte at a place, or a space past the end.
fn byte_at(text: &[u8], at: usize) -> u8
    ensures value { result ≡ get_or text.now at 32 }
    ensures head { result ≡ head (drop at text.now) }
{
    if at < text.len() { text[at] } else { b' ' }
}
