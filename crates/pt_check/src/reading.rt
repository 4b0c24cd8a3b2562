//! Opening a file of a source, and reading it to its end.
ghost use Rattle.std.specs.Prelude.{◌≡◌, ◌<◌, cond, length, min, true, IfOk, IsSome};
ghost use Rattle.std.specs.Option.{option_map, ForSome};
ghost use Rattle.pt_check.specs.Goes.{GoesBy, GoesOn};
ghost use Rattle.pt_tree.specs.Failing.{failing_paths};
ghost use Rattle.pt_tree.specs.Failures.{IsCounted, greatest_count};
ghost use Rattle.pt_tree.specs.Forest.{file_at};
ghost use Rattle.pt_tree.specs.Source.{CanRead, tree_in};
ghost use Rattle.pt_walk.specs.Left.{bytes_at};

use pt_tree::{Block, NamePath, Source, TreeFault};

/// Opens a file, and reads it whole or not. Gives how many bytes were read, up to 2^64 - 1.
pub(crate) fn open_whole<S: Source>(
    source: &mut S,
    path: &NamePath,
    reads: bool,
) -> Result<u64, TreeFault>
    requires { ForSome (tree_in (S.told source.old)) (λ tree. IsSome (file_at tree path.now)) }
    ensures bytes { IfOk result (λ n. ForSome (tree_in (S.told source.old))
        (λ tree. n ≡ cond reads (min (length (bytes_at tree path.now)) greatest_count) 0)) }
    ensures ended { IfOk result (λ n. reads ≡ true → n < greatest_count
        → GoesBy (failing_paths (S.failing source.old)) path.now) }
    ensures tree { tree_in (S.told source.new) ≡ tree_in (S.told source.old) }
    ensures failures { IsCounted (S.failed source.old) (S.failed source.new) result }
    ensures keeps { S.keeps source.old source.new }
{
    source.open(path)?;
    if reads { read_on(source) } else { Ok(0) }
}

// Reads the open file to its end, or until as many bytes are read as can be counted.
fn read_on<S: Source>(source: &mut S) -> Result<u64, TreeFault>
    requires { CanRead (S.told source.old) }
    ensures bytes { IfOk result (λ n. ForSome (S.told source.old)
        (λ s. ForSome s.unread (λ bytes. n ≡ min (length bytes) greatest_count))) }
    ensures ended { IfOk result (λ n. n < greatest_count → GoesOn (S.failing source.old)) }
    ensures tree { tree_in (S.told source.new) ≡ tree_in (S.told source.old) }
    ensures failures { IsCounted (S.failed source.old) (S.failed source.new) result }
    ensures keeps { S.keeps source.old source.new }
{
    let mut block = Block::new();
    let mut total: u64 = 0;
    while total < u64::MAX {
        source.next(&mut block)?;
        if block.is_empty() {
            return Ok(total);
        }
        total = total.saturating_add(block.len() as u64);
    }
    Ok(total)
}
