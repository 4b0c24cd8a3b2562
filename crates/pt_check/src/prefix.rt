//! What is told of the prefix of a store, which stands before each of its identifiers.
#![tactic(auto)]

ghost use Rattle.std.specs.Prelude.{◌≡◌, ◌<◌, length, IfOk, IsSome, None, OnOk, Some, string_bytes};
ghost use Rattle.std.specs.Prelude.{take};
ghost use Rattle.std.specs.Option.{ForSome};
ghost use Rattle.pt_check.specs.Goes.{GoesBy};
ghost use Rattle.pt_check.specs.Prefix.{prefix_trouble as prefix_trouble_of, trouble_of_prefix};
ghost use Rattle.pt_tree.specs.Source.{tree_in};
ghost use Rattle.pt_plan.specs.Store.{prefix_in};
ghost use Rattle.pt_tree.specs.Failing.{failing_paths};
ghost use Rattle.pt_tree.specs.Failures.{IsCounted};
ghost use Rattle.pt_tree.specs.Forest.{File, file_at};
ghost use Rattle.pt_walk.specs.Left.{bytes_at};

use crate::Trouble;
use pt_name::{PrefixFault, is_doubtful, read_prefix};
use pt_tree::{Block, MemoryFault, NamePath, Source, TreeFault};
use std::alloc::Global;

/// What the front of a prefix's file says.
#[derive(Drop)]
pub(crate) struct Front {
    /// The prefix; empty where the front is none.
    pub(crate) prefix: String,
    /// What is told of it.
    pub(crate) trouble: Option<Trouble>,
}

/// Opens the file of a prefix and reads its front, in which a prefix has place.
pub(crate) fn open_prefix<S: Source>(
    alloc: Global,
    source: &mut S,
    path: &NamePath,
) -> Result<Front, TreeFault>
    requires { ForSome (tree_in (S.told source.old)) (λ tree. IsSome (file_at tree path.now)) }
    ensures trouble { IfOk result (λ front. ForSome (tree_in (S.told source.old))
        (λ tree. front.trouble ≡ prefix_trouble_of (take 8192 (bytes_at tree path.now)))) }
    ensures prefix { IfOk result (λ front. ForSome (tree_in (S.told source.old))
        (λ tree. string_bytes front.prefix
        ≡ prefix_in (Some (File (take 8192 (bytes_at tree path.now)))))) }
    ensures ended { OnOk result (ForSome (tree_in (S.told source.old))
        (λ tree. length (take 8192 (bytes_at tree path.now)) < 8192
        → GoesBy (failing_paths (S.failing source.old)) path.now)) }
    ensures tree { tree_in (S.told source.new) ≡ tree_in (S.told source.old) }
    ensures failures { IsCounted (S.failed source.old) (S.failed source.new) result }
    ensures keeps { S.keeps source.old source.new }
{
    let mut block = Block::new();
    source.open(path)?;
    source.next(&mut block)?;
    Ok(front_of(alloc, block.as_slice())?)
}

// What the bytes at the front of a prefix's file say.
fn front_of(alloc: Global, bytes: &[u8]) -> Result<Front, MemoryFault>
    ensures trouble { IfOk result (λ front. front.trouble ≡ prefix_trouble_of bytes.now) }
    ensures prefix { IfOk result (λ front. string_bytes front.prefix
        ≡ prefix_in (Some (File bytes.now))) }
{
    match read_prefix(alloc, bytes) {
        Ok(prefix) => {
            let trouble = doubt(prefix.as_str());
            Ok(Front { prefix, trouble })
        }
        Err(PrefixFault::Memory) => Err(MemoryFault::Memory),
        Err(_) => {
            Ok(Front {
                prefix: String::new(alloc),
                trouble: Some(Trouble::Prefix),
            })
        }
    }
}

// What is told of a prefix.
fn doubt(prefix: &str) -> Option<Trouble>
    ensures { result ≡ trouble_of_prefix None prefix.now }
{
    if is_doubtful(prefix) {
        Some(Trouble::Doubtful)
    } else {
        None
    }
}
