//! The bytes of the open file of a root, held against others. Where a block can't be read, the
//! fault of `next` is answered.
ghost use Rattle.std.specs.Prelude.{◌≡◌, true, false, IfOk};
ghost use Rattle.pt_tree.specs.Failures.{IsCounted};
ghost use Rattle.pt_compare.specs.Bytes.{CameNext, IsAllLeft, IsNotNext, TellsEnd, TellsRest};
ghost use Rattle.pt_compare.specs.Root.{Reads};
ghost use Rattle.pt_tree.specs.Source.{tree_in};

use pt_tree::{BLOCK, Block, Source, TreeFault};
use std::alloc::Global;

// How many blocks of a file are read at most: 2^64 bytes, of which memory has to be wanting before.
const MOST: u64 = 1 << 51;

/// Whether these bytes come next in the open file of a root: block by block, of which all but the
/// last have to be full.
pub fn come_next<R: Source>(
    root: &mut R,
    block: &mut Block,
    bytes: &[u8],
) -> Result<bool, TreeFault>
    requires { Reads (R.told root.old) }
    ensures tree { tree_in (R.told root.new) ≡ tree_in (R.told root.old) }
    ensures keeps { R.keeps root.old root.new }
    ensures failures { IsCounted (R.failed root.old) (R.failed root.new) result }
    ensures reads { Reads (R.told root.new) }
    ensures next { IfOk result (λ same. same ≡ true
        → CameNext bytes.now (R.told root.old) (R.told root.new)) }
    ensures other { IfOk result (λ same. same ≡ false → IsNotNext bytes.now (R.told root.old)) }
{
    let mut rest = bytes;
    while !rest.is_empty() {
        let (piece, behind) = rest.split_at(rest.len().min(BLOCK));
        root.next(block)?;
        if block.as_slice() != piece {
            return Ok(false);
        }
        rest = behind;
    }
    Ok(true)
}

/// Whether the open file of a root has no further bytes.
pub fn has_ended<R: Source>(root: &mut R, block: &mut Block) -> Result<bool, TreeFault>
    requires { Reads (R.told root.old) }
    ensures tree { tree_in (R.told root.new) ≡ tree_in (R.told root.old) }
    ensures keeps { R.keeps root.old root.new }
    ensures failures { IsCounted (R.failed root.old) (R.failed root.new) result }
    ensures reads { Reads (R.told root.new) }
    ensures ended { IfOk result (TellsEnd (R.told root.old)) }
{
    root.next(block)?;
    Ok(block.is_empty())
}

/// Whether the open file of a root has these bytes, and no further ones.
pub(crate) fn are_the_rest<R: Source>(
    root: &mut R,
    block: &mut Block,
    bytes: &[u8],
) -> Result<bool, TreeFault>
    requires { Reads (R.told root.old) }
    ensures tree { tree_in (R.told root.new) ≡ tree_in (R.told root.old) }
    ensures keeps { R.keeps root.old root.new }
    ensures failures { IsCounted (R.failed root.old) (R.failed root.new) result }
    ensures reads { Reads (R.told root.new) }
    ensures same { IfOk result (TellsRest bytes.now (R.told root.old)) }
{
    if !come_next(root, block, bytes)? {
        return Ok(false);
    }
    has_ended(root, block)
}

/// All that is left of the open file of a root. `Memory` where a growth was refused, or it has more
/// than 2^64 bytes.
pub fn rest_of<R: Source>(
    alloc: Global,
    root: &mut R,
    block: &mut Block,
) -> Result<Vec<u8>, TreeFault>
    requires { Reads (R.told root.old) }
    ensures tree { tree_in (R.told root.new) ≡ tree_in (R.told root.old) }
    ensures keeps { R.keeps root.old root.new }
    ensures failures { IsCounted (R.failed root.old) (R.failed root.new) result }
    ensures reads { Reads (R.told root.new) }
    ensures rest { IfOk result (IsAllLeft (R.told root.old)) }
{
    let mut bytes = Vec::new(alloc);
    for _ in 0..MOST {
        root.next(block)?;
        if block.is_empty() {
            return Ok(bytes);
        }
        bytes.extend_from_slice(block.as_slice())?;
    }
    Err(TreeFault::Memory)
}
