//! The tokens of a text that is JSON, one at a time, with nothing allocated.
//!
//! The commas and colons are checked, and nesting isn't: that is what a caller reads by.
ghost use Rattle.std.specs.Prelude.{◌≡◌, ◌≢◌, ◌≤◌, ◌∷◌, [], IfOk, IfSome, List, MatchOption};
ghost use Rattle.std.specs.Prelude.{MatchResult, None, Some, false, length, option_map, true, ℕ};
ghost use Rattle.json.specs.Json.{after_end_array, read_key};
ghost use Rattle.json.specs.Lex.{Lexeme as SpecLexeme, between, lex, tokens};
ghost use Rattle.pt_extra.specs.Tokens.{AreIn, IsIn, Lexes, Yields, begins_at, closes_at, is_colon};
ghost use Rattle.pt_extra.specs.Tokens.{is_passed, place_behind, text_of, token_in, token_of};
ghost use Rattle.pt_extra.specs.Tokens.{tokens_at, tokens_from};

use crate::lexemes::{Lexeme, Token, read_lexeme};
use json::Invalid;
use std::marker::Model;

/// The tokens of a text that are still to come.
#[derive(Drop)]
pub struct Reader<'a> {
    text: &'a [u8],
    // Where in the text what wasn't read yet begins.
    at: usize,
    place: Place,
}

impl<'a> Model for Reader<'a> {
    ghost use Rattle.std.specs.Prelude.{◌≤◌, drop, length};
    ghost use Rattle.pt_extra.specs.Tokens.{Reading, reading_code, tokens_at};

    ghost Value = { Reading };

    ghost coded = { reading_code };

    ghost view = { λ a. record {
      text = a.text.now;
      tokens = tokens_at a.place (drop a.at a.text.now);
    } };

    ghost invariant = { λ a. a.at ≤ length a.text.now };
}

// What came last, by which it is known what may come next.
#[derive(Clone, Copy, Drop)]
pub(crate) enum Place {
    // Nothing yet, an opening bracket, or a colon.
    Fresh,
    AfterValue,
    AfterComma,
    // A fault: nothing comes.
    Failed,
}

impl Place {
    // Whether a value or a key may come.
    fn may_begin(self) -> bool
        ensures { result ≡ begins_at self }
    {
        matches!(self, Place::Fresh | Place::AfterComma)
    }

    // Whether an array or an object may close.
    fn may_close(self) -> bool
        ensures { result ≡ closes_at self }
    {
        matches!(self, Place::Fresh | Place::AfterValue)
    }

    // Whether this lexeme, if one, is a comma that is passed here.
    fn is_passed_by(self, next: &Option<Lexeme<'_>>) -> bool
        ensures { result ≡ is_passed self next.now }
    {
        match (self, next) {
            (Place::AfterValue, Some(Lexeme::Comma)) => true,
            _ => false,
        }
    }

    // The place behind this token, if it may stand here.
    fn behind(self, token: &Token<'_>) -> Option<Place>
        ensures { result ≡ place_behind self token.now }
    {
        match token {
            Token::BeginObject | Token::BeginArray if self.may_begin() => Some(Place::Fresh),
            Token::EndObject | Token::EndArray if self.may_close() => Some(Place::AfterValue),
            Token::String(_) | Token::Number(_) if self.may_begin() => Some(Place::AfterValue),
            Token::Bool(_) | Token::Null if self.may_begin() => Some(Place::AfterValue),
            _ => None,
        }
    }
}

// A token, and what follows it.
#[derive(Drop)]
struct Read<'a> {
    token: Option<Token<'a>>,
    place: Place,
    rest: &'a [u8],
}

impl<'a> Reader<'a> {
    /// Those of a whole text.
    pub fn new(text: &'a [u8]) -> Reader<'a>
        ensures text { result.text ≡ text.now }
        ensures tokens { result.tokens ≡ tokens text.now }
    {
        Reader {
            text,
            at: 0,
            place: Place::Fresh,
        }
    }

    /// The next token; None at the end, and behind a bad token.
    pub fn next(&mut self) -> Option<Token<'a>>
        ensures tokens { MatchOption result ((self.old.tokens ≡ []) × (self.new.tokens ≡ []))
            (λ t. self.old.tokens ≡ token_of t ∷ self.new.tokens) }
        ensures text { self.new.text ≡ self.old.text }
        ensures within { IfSome result (IsIn self.old.text) }
    {
        let Read { token, place, rest } = token_at(self.place, &self.text[self.at..]);
        self.place = place;
        self.at = self.text.len() - rest.len();
        token
    }

    /// The next token, or None at the bracket that closes an array.
    ///
    /// `Invalid` where no token comes.
    pub fn next_item(&mut self) -> Result<Option<Token<'a>>, Invalid>
        ensures value { MatchResult result
            (λ item. MatchOption item (after_end_array self.old.tokens ≡ Some self.new.tokens)
            (λ t. (self.old.tokens ≡ token_of t ∷ self.new.tokens)
            × (after_end_array self.old.tokens ≡ None)))
            (λ _. self.old.tokens ≡ []) }
        ensures text { self.new.text ≡ self.old.text }
        ensures within { IfOk result (λ item. IfSome item (IsIn self.old.text)) }
    {
        let token = self.next().ok_or(Invalid)?;
        match token {
            Token::EndArray => Ok(None),
            _ => Ok(Some(token)),
        }
    }

    /// A key, or None at the brace that closes an object.
    ///
    /// `Invalid` where neither comes.
    pub fn next_key(&mut self) -> Result<Option<&'a [u8]>, Invalid>
        ensures value { MatchResult result
            (λ key. read_key self.old.tokens
            ≡ Some (option_map (λ s. text_of s.now) key, self.new.tokens))
            (λ _. read_key self.old.tokens ≡ None) }
        ensures text { self.new.text ≡ self.old.text }
    {
        let token = self.next().ok_or(Invalid)?;
        match token {
            Token::Key(key) => Ok(Some(key)),
            Token::EndObject => Ok(None),
            _ => Err(Invalid),
        }
    }
}

// The token that comes in a text at a place.
fn token_at(place: Place, text: &[u8]) -> Read<'_>
    ensures yields { Yields (tokens_at place text.now) result.token
        (tokens_at result.place result.rest.now) }
    ensures within { AreIn text.now result.token result.rest.now }
    ensures bound { length result.rest.now ≤ length text.now }
{
    if let Place::Failed = place {
        return Read {
            token: None,
            place,
            rest: text,
        };
    }
    let (next, rest) = read_lexeme(text);
    if place.is_passed_by(&next) {
        let (next, rest) = read_lexeme(rest);
        return placed(Place::AfterComma, next, rest);
    }
    placed(place, next, rest)
}

// What this lexeme gives at a place where something may come, unless it is a comma behind a value.
fn placed<'a>(place: Place, next: Option<Lexeme<'a>>, rest: &'a [u8]) -> Read<'a>
    requires { (place ≢ Place.Failed) × (is_passed place next ≡ false) }
    ensures yields { (ls : List SpecLexeme) → Lexes ls next.entry rest.now
        → Yields (tokens_from place ls) result.token (tokens_at result.place result.rest.now) }
    ensures within { (text : List ℕ) → AreIn text (token_in next.entry) rest.now
        → AreIn text result.token result.rest.now }
{
    match next {
        None => end(place, rest),
        Some(lexeme) => match lexeme {
            Lexeme::Token(token) => place_token(place, token, rest),
            Lexeme::Comma => bad(rest),
            Lexeme::Colon => bad(rest),
        },
    }
}

// What the end of the text gives at a place where something may come.
fn end(place: Place, rest: &[u8]) -> Read<'_>
    requires { place ≢ Place.Failed }
    ensures yields { lex between rest.now ≡ [] → Yields (tokens_from place []) result.token
        (tokens_at result.place result.rest.now) }
    ensures within { (text : List ℕ) → AreIn text None rest.now
        → AreIn text result.token result.rest.now }
{
    if !place.may_close() {
        return bad(rest);
    }
    Read {
        token: None,
        place,
        rest,
    }
}

// What this token gives at a place where something may come.
fn place_token<'a>(place: Place, token: Token<'a>, rest: &'a [u8]) -> Read<'a>
    requires { place ≢ Place.Failed }
    ensures yields { (ls : List SpecLexeme)
        → Lexes ls (Some (Lexeme.Token token.entry)) rest.now
        → Yields (tokens_from place ls) result.token (tokens_at result.place result.rest.now) }
    ensures within { (text : List ℕ) → AreIn text (Some token.entry) rest.now
        → AreIn text result.token result.rest.now }
{
    let Some(next) = place.behind(&token) else {
        return bad(rest);
    };
    match token {
        Token::String(text) => key_or_string(text, rest),
        _ => Read {
            token: Some(token),
            place: next,
            rest,
        },
    }
}

// A key, where a colon follows, which is passed; else a string.
fn key_or_string<'a>(text: &'a [u8], rest: &'a [u8]) -> Read<'a>
    ensures yields { (place : Place) → begins_at place ≡ true → (ls : List SpecLexeme)
        → Lexes ls (Some (Lexeme.Token (Token.String text.entry))) rest.now
        → Yields (tokens_from place ls) result.token (tokens_at result.place result.rest.now) }
    ensures within { (whole : List ℕ) → AreIn whole (Some (Token.String text.entry)) rest.now
        → AreIn whole result.token result.rest.now }
{
    let (next, behind) = read_lexeme(rest);
    if is_colon(&next) {
        return Read {
            token: Some(Token::Key(text)),
            place: Place::Fresh,
            rest: behind,
        };
    }
    Read {
        token: Some(Token::String(text)),
        place: Place::AfterValue,
        rest,
    }
}

// Whether this lexeme, if one, is a colon.
fn is_colon(next: &Option<Lexeme<'_>>) -> bool
    ensures { result ≡ is_colon next.now }
{
    matches!(next, Some(Lexeme::Colon))
}

// The one bad token, behind which none comes.
fn bad(rest: &[u8]) -> Read<'_>
    ensures { (result.token ≡ Some Token.Bad) × (result.place ≡ Place.Failed)
        × (result.rest.now ≡ rest.now) }
{
    Read {
        token: Some(Token::Bad),
        place: Place::Failed,
        rest,
    }
}
