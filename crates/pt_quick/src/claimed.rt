//! The files of an object with the digests that the inventory at its place claims for them.
ghost use Rattle.std.specs.Prelude.{◌≡◌, [], All, IfOk, IfSome, OnOk, map};
ghost use Rattle.std.specs.Option.{option_map, unwrap_or};
ghost use Rattle.serde_json.specs.Data.{null};
ghost use Rattle.serde_json.specs.Read.{read};
ghost use Rattle.serde_json.specs.View.{members_view, view};
ghost use Rattle.pt_object.specs.Distinct.{content_of_row, distinct};
ghost use Rattle.pt_object.specs.FilePaths.{row_paths};
ghost use Rattle.pt_object.specs.VersionState.{state_in};
ghost use Rattle.pt_quick.specs.Claimed.{claimed_all, claimed_at, claimed_in, no_claims};
ghost use Rattle.pt_tree.specs.Name.{AreNames};

use crate::claims::{Claims, claims_in};
use crate::readings::Readings;
use pt_object::{Algorithm, Contents, Row, Rows};
use pt_tree::{MemoryFault, Name};
use serde_json::{Map, Value};
use std::alloc::Global;

/// Files of an object, and their contents.
#[derive(Drop)]
pub struct ClaimedFiles {
    /// The files, in the order of their logical paths.
    pub rows: Rows,
    /// The contents of those rows.
    pub contents: Contents,
}

/// The files of an object with the digests that an inventory has for their paths in its state
/// (OCFL 1.1, "Versions"). None where it has none of this algorithm for one of them, has one digest
/// for two whose rows have different ones, or isn't JSON. `Memory` where a growth was refused.
pub fn claimed_rows(
    alloc: Global,
    inventory: &str,
    rows: &Rows,
    algorithm: Algorithm,
) -> Result<Option<ClaimedFiles>, MemoryFault>
    ensures rows { IfOk result (λ claimed. option_map (λ files. files.rows) claimed
        ≡ claimed_in algorithm inventory.now rows.now) }
    ensures contents { IfOk result (λ claimed. IfSome claimed (λ files. files.contents
        ≡ map content_of_row (distinct files.rows))) }
    ensures named { OnOk result (All AreNames (row_paths rows.now)) }
{
    tell_names(rows.as_slice());
    let inventory = parse(alloc, inventory)?;
    let Some(state) = state_of(&inventory) else {
        return Ok(None);
    };
    let claims = claims_in(alloc, state, algorithm)?;
    rows_with(alloc, &claims, rows.as_slice())
}

// Tells a proof that the names of these paths are names. It does nothing.
fn tell_names(rows: &[Row])
    ensures { All AreNames (row_paths rows.now) }
{
    for row in rows {
        tell_path(row.path.names());
    }
}

// The same of one path's.
fn tell_path(names: &[Name])
    ensures { AreNames names.now }
{
    for name in names {
        let _ = name.bytes();
    }
}

// The JSON of a text; null where it is none.
fn parse(alloc: Global, text: &str) -> Result<Value, MemoryFault>
    ensures { IfOk result (λ value. view value ≡ unwrap_or (read text.now) null) }
{
    match Value::from_str(alloc, text) {
        Ok(value) => Ok(value),
        Err(error) if error.is_memory() => Err(MemoryFault::Memory),
        Err(_) => Ok(Value::Null),
    }
}

// The state of the version `v1` of an inventory, if it is there.
fn state_of(inventory: &Value) -> Option<&Map<String, Value>>
    ensures { option_map (λ m. members_view m.now.entries) result
        ≡ state_in (view inventory.now) }
{
    let version = inventory.get("versions")?.get("v1")?;
    version.get("state")?.as_object()
}

// The rows with the digests that are claimed for their paths, and their contents; None where for
// one of them none is, or where two with one of these digests were read as different files: what
// stands for both holds only one of them.
fn rows_with(
    alloc: Global,
    claims: &Claims,
    rows: &[Row],
) -> Result<Option<ClaimedFiles>, MemoryFault>
    ensures rows { IfOk result (λ claimed. option_map (λ files. files.rows) claimed
        ≡ claimed_all (claimed_at claims.now) no_claims [] rows.now) }
    ensures contents { IfOk result (λ claimed. IfSome claimed (λ files. files.contents
        ≡ map content_of_row (distinct files.rows))) }
{
    let mut files = ClaimedFiles {
        rows: Rows::new(alloc),
        contents: Contents::new(alloc),
    };
    let mut readings = Readings::new(alloc);
    for row in rows {
        let text = row.path.join()?;
        let Some(digest) = claims.get(text.as_slice()) else {
            return Ok(None);
        };
        if !readings.note(digest, &row.digest)? {
            return Ok(None);
        }
        files.rows.push(&row.path, digest, row.length)?;
        files.contents.note(digest, &row.path)?;
    }
    Ok(Some(files))
}
