//! What a line tells of an object.
ghost use Rattle.std.specs.Prelude.{◌≡◌, IfOk, min};
ghost use Rattle.pt_plan.specs.TurnPlace.{bytes_in_rows};
ghost use Rattle.pt_tree.specs.Failures.{greatest_count};
ghost use Rattle.pt_state.specs.Telling.{IsCarried};

use crate::State;
use crate::paths::object_path;
use pt_object::Rows;
use pt_plan::Object;
use pt_plan::lines::ToldObject;
use pt_tree::MemoryFault;

/// What the line of an object tells whose rows are held; `Memory` where a growth was refused.
pub fn as_told<'m>(object: &'m Object, state: &State) -> Result<ToldObject<'m>, MemoryFault>
    ensures { IfOk result (λ told. IsCarried object.now state.now told) }
{
    Ok(ToldObject {
        at: object_path(object, &state.trail)?,
        bytes: bytes_in(&state.rows),
        empty: object.empty,
        files: state.rows.len() as u64,
        id: &object.id,
        to: &object.place,
    })
}

// The lengths of all rows together, up to 2^64 - 1.
fn bytes_in(rows: &Rows) -> u64
    ensures { result ≡ min (bytes_in_rows rows.now) greatest_count }
{
    let mut bytes = 0u64;
    for row in rows.as_slice() {
        bytes = bytes.saturating_add(row.length);
    }
    bytes
}
