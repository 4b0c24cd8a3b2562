//! What a destination was asked to do, as proofs alone know it: no code reads it, and it takes no
//! memory.
ghost use Rattle.std.specs.Prelude.{◌≡◌, List, []};
ghost use base.Fml.{ftrue};
ghost use Rattle.pt_rehearsal.specs.Steps.{Step, steps_code};

use pt_tree::NamePath;
use std::marker::Model;

/// The steps that a destination was asked for, the last one first. They exist in proofs alone: at
/// run time this is nothing, and its calls do nothing.
///
/// So a device that keeps none of the bytes that it is given can tell a tree that holds them. What
/// it tells is bound by the answers that it really gives: its trait's clauses hold them against
/// what it tells.
#[derive(Drop)]
pub struct Played {
    pub ghost steps: { List Step } by { steps_code },
}

impl Model for Played {
    ghost also_owns = { λ _. ftrue };
}

/// One step.
#[derive(Clone, Copy, Drop)]
pub enum Note<'a> {
    /// A directory was made.
    MadeDir(&'a NamePath),
    /// An empty file was made, and is the open one.
    MadeFile(&'a NamePath),
    /// A piece was added to the open file.
    Added(&'a [u8]),
    /// The open file was closed.
    Closed,
    /// What stood at the first path was moved to the second.
    Moved(&'a NamePath, &'a NamePath),
}

impl Played {
    ghost use Rattle.pt_rehearsal.specs.Noted.{noted};

    /// No step.
    pub fn new() -> Played
        ensures { result.steps ≡ [] }
    {
        Played {}
    }

    /// One step more, this one, in front of the others (`noted`).
    #[inline(always)]
    pub fn then(&self, _note: &Note<'_>) -> Played
        ensures { result.steps ≡ noted self.now.steps _note.now }
    {
        Played {}
    }
}
