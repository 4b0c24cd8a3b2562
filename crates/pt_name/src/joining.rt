ghost use Rattle.std.specs.Prelude.{◌≡◌, IfOk};
ghost use Rattle.std.specs.List.{concat};

use pt_tree::{MemoryFault, NamePath};
use std::alloc::Global;

/// The names of a path with nothing between them: what the identifier of a Pairtree object is read
/// from, since the cuts of its pairpath may fall inside a spelling.
///
/// `Memory` where a growth was refused.
pub fn concatenate(alloc: Global, path: &NamePath) -> Result<Vec<u8>, MemoryFault>
    ensures { IfOk result (λ text. text.items ≡ concat path.now) }
{
    let mut text = Vec::new(alloc);
    for i in 0..path.len() {
        if let Some(name) = path.get(i) {
            text.extend_from_slice(name.bytes())?;
        }
    }
    Ok(text)
}
