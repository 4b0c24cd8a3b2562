//! What a survey has in place of a destination, and of a log for what it doesn't tell.
#![tactic(auto, using(crate::proofs::SurveyRules::survey_rules))]

ghost use Rattle.std.specs.Prelude.{None, Some, ⊤};
ghost use Rattle.pt_audit.specs.EmptyDest.{bare, bare_is_tree, no_log};

use pt_tree::{Block, Dest, Kind, Log, NamePath, TreeFault};

/// A destination in which nothing stands. Nothing is made in it either: each call that would is
/// refused for want of memory.
#[derive(Drop)]
pub(crate) struct EmptyDest;

#[tactic(auto, unfolding(pt_tree::specs::Dest::IsKindAt))]
impl Dest for EmptyDest {
    ghost told = { λ _. Some bare };

    ghost failed = { λ _. 0 };

    ghost keeps = { λ _ _. ⊤ };

    ghost is_kept = { λ _. tt };

    ghost keeps_on = { λ _ _ _ _ _. tt };

    ghost is_tree = { bare_is_tree };

    fn failures(&self) -> u64 {
        0
    }

    fn kind(&mut self, path: &NamePath) -> Result<Option<Kind>, TreeFault> {
        if path.is_empty() {
            Ok(Some(Kind::Dir))
        } else {
            Ok(None)
        }
    }

    fn peek(&mut self, _path: &NamePath, block: &mut Block) -> Result<(), TreeFault> {
        block.clear();
        Err(TreeFault::Memory)
    }

    fn mkdir(&mut self, _path: &NamePath) -> Result<(), TreeFault> {
        Err(TreeFault::Memory)
    }

    fn create(&mut self, _path: &NamePath) -> Result<(), TreeFault> {
        Err(TreeFault::Memory)
    }

    fn append(&mut self, _piece: &[u8]) -> Result<(), TreeFault> {
        Err(TreeFault::Memory)
    }

    fn finish(&mut self) -> Result<(), TreeFault> {
        Err(TreeFault::Memory)
    }

    fn rename(&mut self, _from: &NamePath, _to: &NamePath) -> Result<(), TreeFault> {
        Err(TreeFault::Memory)
    }
}

/// A log that nobody reads.
#[derive(Drop)]
pub(crate) struct NullLog;

impl Log for NullLog {
    ghost told = { no_log };

    ghost failed = { λ _. 0 };

    ghost keeps = { λ _ _. ⊤ };

    ghost is_kept = { λ _. tt };

    ghost keeps_on = { λ _ _ _ _ _. tt };

    fn failures(&self) -> u64 {
        0
    }

    fn put(&mut self, _piece: &[u8]) -> Result<(), TreeFault> {
        Ok(())
    }
}
