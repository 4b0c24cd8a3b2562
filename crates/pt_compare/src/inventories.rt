//! The inventory that stands, held against those that a run could make of the same files.
ghost use Rattle.std.specs.Prelude.{◌≡◌, IfOk, IfSome, MatchOption, map};
ghost use Rattle.std.specs.Option.{option_map, unwrap_or};
ghost use Rattle.std.specs.String.{string_bytes};
ghost use Rattle.serde_json.specs.Data.{null};
ghost use Rattle.serde_json.specs.Read.{read};
ghost use Rattle.serde_json.specs.View.{view};
ghost use Rattle.pt_compare.specs.Described.{IsGiven, IsMade, TellsMade, description_in, given_by};
ghost use Rattle.pt_compare.specs.Described.{is_text_with, texts_in, texts_in_inventory};
ghost use Rattle.pt_compare.specs.Described.{texts_view};
ghost use Rattle.pt_compare.specs.Found.{texts_of_object};
ghost use Rattle.pt_object.specs.Distinct.{content_of_row, distinct};

use crate::ScannedObject;
use pt_object::{Meta, MetaFault, inventory};
use pt_tree::MemoryFault;
use serde_json::Value;
use std::alloc::Global;

// What stands between the parts of an inventory.
const CREATED: &str = "\"versions\":{\"v1\":{\"created\":";

const MESSAGE: &str = ",\"message\":";

const STATE: &str = ",\"state\":";

const USER: &str = ",\"user\":";

const END: &str = "}}}";

/// The text of an inventory that stands, if it is one that a run could make of this object's files:
/// with whatever moment, user and message it could be given (OCFL 1.1, "Versions"). `Memory` where
/// a growth was refused.
pub(crate) fn text_if_made(
    alloc: Global,
    stands: Vec<u8>,
    object: &ScannedObject<'_>,
) -> Result<Option<String>, MemoryFault>
    requires { object.now.contents.now ≡ map content_of_row (distinct object.now.rows.now) }
    ensures { IfOk result (λ text. MatchOption text
        (¬ (IsMade (texts_of_object object.now) stands.items))
        (λ text. (string_bytes text ≡ stands.items)
        × IsMade (texts_of_object object.now) stands.items)) }
{
    let Ok(stands) = String::from_utf8(stands) else {
        return Ok(None);
    };
    if is_made(alloc, stands.as_str(), object)? {
        Ok(Some(stands))
    } else {
        Ok(None)
    }
}

// Whether it is such a text. What it says of its version is first sought where a run writes that,
// since as JSON a whole inventory takes far more memory than as text.
fn is_made(alloc: Global, stands: &str, object: &ScannedObject<'_>) -> Result<bool, MemoryFault>
    requires { object.now.contents.now ≡ map content_of_row (distinct object.now.rows.now) }
    ensures { IfOk result (TellsMade (texts_of_object object.now) stands.now) }
{
    if let Some(meta) = meta_by_text(alloc, stands)? {
        if is_text(alloc, object, &meta, stands)? {
            return Ok(true);
        }
    }
    let Some(meta) = meta_by_json(alloc, stands)? else {
        return Ok(false);
    };
    is_text(alloc, object, &meta, stands)
}

// Whether this is the text of the object's inventory with this description of its version.
fn is_text(
    alloc: Global,
    object: &ScannedObject<'_>,
    meta: &Meta,
    text: &str,
) -> Result<bool, MemoryFault>
    requires { object.now.contents.now ≡ map content_of_row (distinct object.now.rows.now) }
    ensures { IfOk result (λ same. same
        ≡ is_text_with (texts_of_object object.now) text.now meta.now) }
{
    let made = inventory(
        alloc,
        object.id,
        object.rows,
        object.contents,
        meta,
        object.algorithm,
    )?;
    Ok(text == made.as_str())
}

// What an inventory says of its version, if that stands where a run writes it and is what a run
// could say.
fn meta_by_text(alloc: Global, text: &str) -> Result<Option<Meta>, MemoryFault>
    ensures { IfOk result (λ meta. IfSome meta IsGiven) }
{
    let Some(parts) = parts_of(text) else {
        return Ok(None);
    };
    let created = parse(alloc, parts.created)?;
    let message = parse(alloc, parts.message)?;
    let user = parse(alloc, parts.user)?;
    match texts_of(&created, &message, &user) {
        Some(texts) => meta_of(alloc, &texts),
        None => Ok(None),
    }
}

// The parts of an inventory's text that describe its version.
#[derive(Drop)]
struct Parts<'a> {
    created: &'a str,
    message: &'a str,
    user: &'a str,
}

// Those of a text, if it has them. In the strings of JSON each quote has a backslash before it, so
// the words between the parts are found in none of them.
fn parts_of(text: &str) -> Option<Parts<'_>> {
    let (_, rest) = text.split_once(CREATED)?;
    let (created, rest) = rest.split_once(MESSAGE)?;
    let (message, rest) = rest.split_once(STATE)?;
    let (_, user) = rest.rsplit_once(USER)?;
    let user = user.strip_suffix(END)?;
    Some(Parts {
        created,
        message,
        user,
    })
}

// What an inventory says of its version, if it is what a run could say.
fn meta_by_json(alloc: Global, text: &str) -> Result<Option<Meta>, MemoryFault>
    ensures { IfOk result (λ meta. meta ≡ description_in (unwrap_or (read text.now) null)) }
{
    let inventory = parse(alloc, text)?;
    match texts_in_json(&inventory) {
        Some(texts) => meta_of(alloc, &texts),
        None => Ok(None),
    }
}

// The JSON of a text; null where it is none.
fn parse(alloc: Global, text: &str) -> Result<Value, MemoryFault>
    ensures { IfOk result (λ value. view value ≡ unwrap_or (read text.now) null) }
{
    match Value::from_str(alloc, text) {
        Ok(value) => Ok(value),
        Err(error) if error.is_memory() => Err(MemoryFault::Memory),
        Err(_) => Ok(Value::Null),
    }
}

// The texts that describe a version.
#[derive(Drop)]
struct Texts<'a> {
    created: &'a str,
    name: &'a str,
    address: Option<&'a str>,
    message: &'a str,
}

// Those of an inventory, if all are there.
fn texts_in_json(inventory: &Value) -> Option<Texts<'_>>
    ensures { option_map texts_view result ≡ texts_in_inventory (view inventory.now) }
{
    let version = inventory.get("versions")?.get("v1")?;
    texts_of(
        version.get("created")?,
        version.get("message")?,
        version.get("user")?,
    )
}

// Those of a moment, a message and a user.
fn texts_of<'a>(created: &'a Value, message: &'a Value, user: &'a Value) -> Option<Texts<'a>>
    ensures { option_map texts_view result
        ≡ texts_in (view created.now) (view message.now) (view user.now) }
{
    let address = match user.get("address") {
        Some(address) => Some(address.as_str()?),
        None => None,
    };
    Some(Texts {
        created: created.as_str()?,
        name: user.get("name")?.as_str()?,
        address,
        message: message.as_str()?,
    })
}

// The description with these texts, if a run could give it.
fn meta_of(alloc: Global, texts: &Texts<'_>) -> Result<Option<Meta>, MemoryFault>
    ensures { IfOk result (λ meta. meta ≡ given_by (texts_view texts.now)) }
{
    match Meta::of(
        alloc,
        texts.created,
        texts.name,
        texts.address,
        texts.message,
    ) {
        Ok(meta) => Ok(Some(meta)),
        Err(MetaFault::Created) => Ok(None),
        Err(MetaFault::EmptyName) => Ok(None),
        Err(MetaFault::Memory) => Err(MemoryFault::Memory),
    }
}
