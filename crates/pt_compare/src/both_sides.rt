//! The open file of a source, held against that of a root.
ghost use Rattle.std.specs.Prelude.{IfErr, IfOk};
ghost use Rattle.pt_compare.specs.Meeting.{FailsAs, IsHalt, TellsAlike, both};
ghost use Rattle.pt_compare.specs.Root.{KeepsRoot, Reads};

use crate::stop::{Stop, of_root, of_source};
use pt_plan::Fault;
use pt_tree::{Block, Source};

/// Whether what is left of both files has the same bytes; both are read block by block, up to the
/// first that differ. `Memory` where they are longer than 2^77 bytes, which no file is.
pub(crate) fn are_alike<S: Source, R: Source>(source: &mut S, root: &mut R) -> Result<bool, Stop>
    requires source { Reads (S.told source.old) }
    requires root { Reads (R.told root.old) }
    ensures source { KeepsRoot S.told S.keeps source.old source.new }
    ensures root { KeepsRoot R.told R.keeps root.old root.new }
    ensures failures { FailsAs result (both (S.failed source.old) (R.failed root.old))
        (both (S.failed source.new) (R.failed root.new)) }
    ensures halts { IfErr result IsHalt }
    ensures alike { IfOk result (TellsAlike (S.told source.old) (R.told root.old)) }
{
    let mut block = Block::new();
    let mut other = Block::new();
    // Counted as the reads of `take_all` of pt_folder (taking.rt), so that it ends whatever is
    // read.
    for _ in 0..u64::MAX {
        source.next(&mut block).map_err(of_source)?;
        root.next(&mut other).map_err(of_root)?;
        if other.as_slice() != block.as_slice() {
            return Ok(false);
        }
        if block.is_empty() {
            return Ok(true);
        }
    }
    Err(Stop::Fault(Fault::Memory))
}
