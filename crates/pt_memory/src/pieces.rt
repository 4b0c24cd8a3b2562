//! What a system gives by pieces: bytes from a place on, and names, a NUL behind each.
ghost use Rattle.std.specs.Prelude.{◌≡◌, ◌+◌, ◌++◌, ◌≤◌, ◌∷◌, [], OnOk, drop, length, take};

use pt_tree::Name;
use std::alloc::AllocError;

/// Puts the next so many bytes from a place on into a buffer, and goes on behind them.
pub fn take_next(bytes: &[u8], place: &mut usize, count: usize, buffer: &mut [u8])
    requires left { place.old + count ≤ length bytes.now }
    requires room { count ≤ length buffer.old }
    ensures place { place.new ≡ place.old + count }
    ensures room { length buffer.new ≡ length buffer.old }
    ensures taken { drop place.old bytes.now ≡ take count buffer.new ++ drop place.new bytes.now }
{
    let rest = &bytes[*place..];
    buffer[..count].copy_from_slice(&rest[..count]);
    *place += count;
}

/// Puts a name behind others, and a NUL behind it.
/// An error where a growth was refused; the name may stand there then.
pub fn add_name(bytes: &mut Vec<u8>, name: &Name) -> Result<(), AllocError>
    ensures { OnOk result (bytes.new.items ≡ bytes.old.items ++ (name.now ++ 0 ∷ [])) }
{
    bytes.extend_from_slice(name.bytes())?;
    bytes.push(0)?;
    Ok(())
}
