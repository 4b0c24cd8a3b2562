//! The identifier in the text of an inventory, of which nothing else is kept: the text is read as
//! `serde_json` reads it into a value, and each value is passed over.
ghost use Rattle.std.specs.Prelude.{◌≡◌, ◌≤◌, ◌<◌, ◌==◌, ◌∷◌, ℕ, IfOk, IfSome, IsTrue, List, OnErr};
ghost use Rattle.std.specs.Prelude.{None, OnOk, Some, is_some, length, slice_index};
ghost use Rattle.std.specs.Option.{option_and_then, option_map, unwrap_or};
ghost use Rattle.json.specs.Json.{items, members, value};
ghost use Rattle.pt_extra.specs.Inventories.{text_in};
ghost use Rattle.pt_extra.specs.Tokens.{IsIn, IsStringIn, text_of, token_of};
ghost use Rattle.serde_json.specs.Data.{Data, Items, Members, no_members, null, object, put};
ghost use Rattle.serde_json.specs.Find.{as_str};
ghost use Rattle.serde_json.specs.Read.{converted, max_depth, number_of, number_from, of_items};
ghost use Rattle.serde_json.specs.Read.{of_json, of_members, read};

use crate::lexemes::Token;
use crate::strings::is_id;
use crate::tokens::Reader;
use fast_float::Numeral;
use json::Invalid;

// How deep arrays and objects may stand one in another, as serde_json reads them.
const MOST_DEPTH: usize = 127;

/// The text at `id` in an inventory of this text, seen from behind its opening quote on; None where
/// it is no JSON object with one.
pub(crate) fn find_id(text: &[u8]) -> Option<&[u8]>
    ensures id { option_map (λ id. text_of id.now) result
        ≡ text_in (unwrap_or (read text.now) null) }
    ensures within { IsStringIn text.now result }
    ensures bound { IfSome result (λ id. length id.now ≤ length text.now) }
{
    let mut reader = Reader::new(text);
    let Ok(id) = read_inventory(&mut reader) else {
        return None;
    };
    if reader.next().is_some() {
        return None;
    }
    id
}

// The text at `id` in the object that comes, of which the rest is passed over; None where it has
// none.
//
// `Invalid` where no JSON object comes.
fn read_inventory<'a>(reader: &mut Reader<'a>) -> Result<Option<&'a [u8]>, Invalid>
    ensures read { IfOk result (λ id. (inventory : Members)
        × (converted of_json (value max_depth reader.old.tokens)
        ≡ Some (object inventory, reader.new.tokens))
        × (option_map (λ text. text_of text.now) id ≡ text_in (object inventory))) }
    ensures within { IfOk result (IsStringIn reader.old.text) }
    ensures refused { OnErr result (option_and_then (λ p. text_in p.0)
        (converted of_json (value max_depth reader.old.tokens)) ≡ None) }
{
    let token = reader.next().ok_or(Invalid)?;
    match token {
        Token::BeginObject => read_members(reader, MOST_DEPTH - 1),
        _ => Err(Invalid),
    }
}

// Passes over the value that begins with this token, in which arrays and objects may stand one in
// another so deep. Gives its text, if it is one.
//
// `Invalid` where none begins so, where it is deeper, and where a number in it is too large for a
// float.
#[cycle(read)]
fn read_value<'a>(
    reader: &mut Reader<'a>,
    token: Token<'a>,
    depth: usize,
) -> Result<Option<&'a [u8]>, Invalid>
    ensures read { IfOk result (λ text. (it : Data)
        × (converted of_json (value depth (token_of token.entry ∷ reader.old.tokens))
        ≡ Some (it, reader.new.tokens))
        × (option_map (λ text. text_of text.now) text ≡ as_str it)) }
    ensures shorter { OnOk result (length reader.new.tokens ≤ length reader.old.tokens) }
    ensures text { OnOk result (reader.new.text ≡ reader.old.text) }
    ensures within { (text : List ℕ) → IsIn text token.entry
        → IfOk result (IsStringIn text) }
    ensures refused { OnErr result
        (converted of_json (value depth (token_of token.entry ∷ reader.old.tokens)) ≡ None) }
{
    match token {
        Token::String(text) => Ok(Some(text)),
        Token::Bool(_) | Token::Null => Ok(None),
        Token::Number(text) => if is_in_range(text) {
            Ok(None)
        } else {
            Err(Invalid)
        },
        Token::EndObject | Token::EndArray | Token::Key(_) | Token::Bad => Err(Invalid),
        Token::BeginArray => {
            if depth == 0 {
                return Err(Invalid);
            }
            read_items(reader, depth - 1)?;
            Ok(None)
        }
        Token::BeginObject => {
            if depth == 0 {
                return Err(Invalid);
            }
            read_members(reader, depth - 1)?;
            Ok(None)
        }
    }
}

// Passes over what is left of an array.
#[cycle(read)]
fn read_items(reader: &mut Reader<'_>, depth: usize) -> Result<(), Invalid>
    ensures read { OnOk result ((them : Items)
        × (converted of_items (items (value depth) (length reader.old.tokens) reader.old.tokens)
        ≡ Some (them, reader.new.tokens))) }
    ensures shorter { OnOk result (length reader.new.tokens < length reader.old.tokens) }
    ensures text { OnOk result (reader.new.text ≡ reader.old.text) }
    ensures refused { OnErr result
        (converted of_items (items (value depth) (length reader.old.tokens) reader.old.tokens)
        ≡ None) }
{
    'items: while let Some(token) = reader.next_item()? {
        read_value(reader, token, depth)?;
    }
    Ok(())
}

// Passes over what is left of an object, and gives the text at `id` in it, the last of several.
#[cycle(read)]
fn read_members<'a>(reader: &mut Reader<'a>, depth: usize) -> Result<Option<&'a [u8]>, Invalid>
    ensures read { IfOk result (λ id. (them : Members)
        × (converted (λ ms. of_members ms no_members)
        (members (value depth) (length reader.old.tokens) reader.old.tokens)
        ≡ Some (them, reader.new.tokens))
        × (option_map (λ text. text_of text.now) id ≡ text_in (object them))) }
    ensures shorter { OnOk result (length reader.new.tokens < length reader.old.tokens) }
    ensures text { OnOk result (reader.new.text ≡ reader.old.text) }
    ensures within { IfOk result (IsStringIn reader.old.text) }
    ensures refused { OnErr result (converted (λ ms. of_members ms no_members)
        (members (value depth) (length reader.old.tokens) reader.old.tokens) ≡ None) }
{
    let mut id = None;
    'members: while let Some(name) = reader.next_key()? {
        let token = reader.next().ok_or(Invalid)?;
        let text = read_value(reader, token, depth)?;
        id = text_at_id(id, name, text);
    }
    Ok(id)
}

// The text at `id`, of that before, once a value of this text, if it is one, stands at a name.
fn text_at_id<'a>(id: Option<&'a [u8]>, name: &[u8], text: Option<&'a [u8]>) -> Option<&'a [u8]>
    ensures text { (them : Members) → (it : Data)
        → option_map (λ t. text_of t.now) id.entry ≡ text_in (object them)
        → option_map (λ t. text_of t.now) text.entry ≡ as_str it
        → option_map (λ t. text_of t.now) result
        ≡ text_in (object (put (text_of name.now) it them)) }
    ensures within { (whole : List ℕ) → IsStringIn whole id.entry
        → IsStringIn whole text.entry → IsStringIn whole result }
{
    if is_id(name) { text } else { id }
}

// Whether the number that this text writes is one of 64 bits, or a float that isn't infinite.
fn is_in_range(text: &[u8]) -> bool
    ensures { result ≡ is_some (number_of text.now) }
{
    if begins_with_minus(text) {
        fits(true, &Numeral::scan(&text[1..]))
    } else {
        fits(false, &Numeral::scan(text))
    }
}

// Whether a text begins with a minus.
fn begins_with_minus(bytes: &[u8]) -> bool
    ensures value { result ≡ (slice_index bytes.now 0 == 45) }
    ensures len { IsTrue result → 0 < length bytes.now }
{
    !bytes.is_empty() && bytes[0] == b'-'
}

// The same of a number with this sign.
fn fits(negative: bool, numeral: &Numeral<'_>) -> bool
    ensures { result ≡ is_some (number_from negative numeral.now) }
{
    if negative {
        if let Some(n) = numeral.to_i64(true) {
            if n < 0 {
                return true;
            }
        }
        return numeral.to_float::<f64>(true).is_finite();
    }
    numeral.to_u64().is_some() || numeral.to_float::<f64>(false).is_finite()
}
