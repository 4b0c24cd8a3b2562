//! Which share of a store what stands in a root is of. Where the store is divided by its folders,
//! that is the share that the name of an entry of the root gives, for all at and below it.
ghost use Rattle.std.specs.Prelude.{◌≡◌, IfOk};
ghost use Rattle.pt_extra.specs.Findings.{entry_of as entry_of_path, looks_at as looks_at_path};
ghost use Rattle.pt_name.specs.Share.{takes as takes_of, tells_at};

use pt_name::{Division, Share};
use pt_tree::{MemoryFault, NamePath};
use std::alloc::Global;

/// Whether a share looks at what stands at this path of a root: of the entries of the root at its
/// own alone, where the store is divided by its folders. What is deeper it meets only in these.
pub(crate) fn looks_at(share: &Share, path: &NamePath) -> bool
    ensures { result ≡ looks_at_path share.now path.now }
{
    path.len() != 1
        || match share.division() {
            Division::Identifiers => true,
            Division::Folders(_) => share.tells_at(path),
        }
}

/// Whether a share tells what is stray at this path of a root and has no identifier. `Memory` where
/// a growth was refused.
pub(crate) fn tells_of(alloc: Global, share: &Share, path: &NamePath) -> Result<bool, MemoryFault>
    ensures { IfOk result (λ tells. tells ≡ tells_at share.now (entry_of_path path.now)) }
{
    let entry = entry_of(alloc, path)?;
    Ok(share.tells_at(&entry))
}

/// Whether the object at this path of a root, with this identifier, is of a share, and chosen.
/// `Memory` where a growth was refused.
pub(crate) fn takes(
    alloc: Global,
    share: &Share,
    path: &NamePath,
    id: &str,
) -> Result<bool, MemoryFault>
    ensures { IfOk result (λ takes. takes ≡ takes_of share.now (entry_of_path path.now) id.now) }
{
    let entry = entry_of(alloc, path)?;
    Ok(share.takes(&entry, id.as_bytes()))
}

// The entry of a root at or below which a path lies, as its path; the empty one for the top.
// `Memory` where a growth was refused.
fn entry_of(alloc: Global, path: &NamePath) -> Result<NamePath, MemoryFault>
    ensures { IfOk result (λ entry. entry ≡ entry_of_path path.now) }
{
    if path.is_empty() {
        return Ok(NamePath::new(alloc));
    }
    NamePath::of_names(alloc, &path.names()[..1])
}
