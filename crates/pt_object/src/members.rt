//! Members of a JSON object that are texts and numbers.
ghost use Rattle.std.specs.Prelude.{◌≡◌, OnOk};
ghost use Rattle.serde_json.specs.Data.{number, put, string, unsigned};
ghost use Rattle.serde_json.specs.View.{members_view};

use serde_json::{Map, Value};
use std::alloc::{AllocError, Global};

/// Puts a text at a key.
/// An error where a growth was refused.
pub fn put_text(
    members: &mut Map<String, Value>,
    alloc: Global,
    key: &str,
    text: &str,
) -> Result<(), AllocError>
    ensures { OnOk result (members_view members.new.entries
        ≡ put key.now (string text.now) (members_view members.old.entries)) }
{
    let text = String::from_str(alloc, text)?;
    serde_json::put(members, alloc, key, Value::from(text))
}

/// Puts a number at a key.
/// An error where a growth was refused.
pub fn put_number(
    members: &mut Map<String, Value>,
    alloc: Global,
    key: &str,
    n: u64,
) -> Result<(), AllocError>
    ensures { OnOk result (members_view members.new.entries
        ≡ put key.now (number (unsigned n)) (members_view members.old.entries)) }
{
    serde_json::put(members, alloc, key, Value::from(n))
}
