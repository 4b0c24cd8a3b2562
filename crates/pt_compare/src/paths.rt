//! The paths of an object, from its place on.
ghost use Rattle.std.specs.Prelude.{◌≡◌, ◌++◌, IfOk};
ghost use Rattle.pt_object.specs.Object.{in_content};

use pt_object::WellKnownName;
use pt_tree::{MemoryFault, Name, NamePath};
use std::alloc::Global;

/// A path with another behind it. `Memory` where a growth was refused.
pub(crate) fn join(path: &NamePath, inner: &NamePath) -> Result<NamePath, MemoryFault>
    ensures { IfOk result (λ whole. whole ≡ path.now ++ inner.now) }
{
    path.concat(inner.names())
}

/// The content path of a logical path, or of a folder on the way to it, from the object's place on
/// (OCFL 1.1, "Content Directory"). `Memory` where a growth was refused.
pub fn content_path(alloc: Global, path: &[Name]) -> Result<NamePath, MemoryFault>
    ensures { IfOk result (λ whole. whole ≡ in_content path.now) }
{
    NamePath::of_known_with_room(
        alloc,
        &[WellKnownName::Version, WellKnownName::Content],
        path.len(),
    )?
    .with_names(path)
}
