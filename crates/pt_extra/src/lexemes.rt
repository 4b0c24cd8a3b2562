//! The lexemes of JSON, each read where it begins, with nothing allocated.
ghost use Rattle.std.specs.Prelude.{◌≡◌, ◌∷◌, ◌<◌, false, length};
ghost use Rattle.json.specs.Lex.{between, lex};
ghost use Rattle.json.specs.Word.{head, is_space};
ghost use Rattle.pt_extra.specs.Tokens.{AreIn, IsRest, Lexes, token_in};

use crate::strings::string_len;
use crate::words::{word, word_len};

/// A token of JSON. Of a key and of a string it has the text from behind the opening quote on,
/// with its escapes.
#[derive(Clone, Copy, Debug, Drop)]
pub enum Token<'a> {
    BeginObject,
    EndObject,
    BeginArray,
    EndArray,
    Key(&'a [u8]),
    String(&'a [u8]),
    Number(&'a [u8]),
    Bool(bool),
    Null,
    /// The text is no JSON from here on.
    Bad,
}

/// A token that is no key, or a mark between tokens.
#[derive(Clone, Copy, Debug, Drop)]
pub(crate) enum Lexeme<'a> {
    Token(Token<'a>),
    Comma,
    Colon,
}

/// The lexeme that comes first in a text, if one comes, and what follows it.
pub(crate) fn read_lexeme(text: &[u8]) -> (Option<Lexeme<'_>>, &[u8])
    ensures lexes { Lexes (lex between text.now) result.0 result.1.now }
    ensures within { AreIn text.now (token_in result.0) result.1.now }
{
    let found = after_spaces(text);
    if found.is_empty() {
        return (None, found);
    }
    let rest = &found[1..];
    match found[0] {
        b'"' => read_string(rest),
        b'{' => (Some(Lexeme::Token(Token::BeginObject)), rest),
        b'}' => (Some(Lexeme::Token(Token::EndObject)), rest),
        b'[' => (Some(Lexeme::Token(Token::BeginArray)), rest),
        b']' => (Some(Lexeme::Token(Token::EndArray)), rest),
        b',' => (Some(Lexeme::Comma), rest),
        b':' => (Some(Lexeme::Colon), rest),
        _ => (Some(Lexeme::Token(word(found))), &rest[word_len(rest)..]),
    }
}

// The string whose opening quote this follows, and what follows the string.
fn read_string(text: &[u8]) -> (Option<Lexeme<'_>>, &[u8])
    ensures lexes { Lexes (lex between (34 ∷ text.now)) result.0 result.1.now }
    ensures within { AreIn (34 ∷ text.now) (token_in result.0) result.1.now }
{
    match string_len(text) {
        Some(len) => (Some(Lexeme::Token(Token::String(text))), &text[len..]),
        None => (Some(Lexeme::Token(Token::Bad)), text),
    }
}

// A text without the spaces that it begins with.
fn after_spaces(text: &[u8]) -> &[u8]
    ensures same { lex between result.now ≡ lex between text.now }
    ensures within { IsRest text.now result.now }
    ensures solid { 0 < length result.now → is_space (head result.now) ≡ false }
{
    let mut at = 0;
    'spaces: while at < text.len() && is_space(text[at]) {
        at += 1;
    }
    &text[at..]
}

// Whether a byte is a space between lexemes.
fn is_space(c: u8) -> bool
    ensures { result ≡ is_space c }
{
    (c == b' ') | (c == b'\t') | (c == b'\n') | (c == b'\r')
}
