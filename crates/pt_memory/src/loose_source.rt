ghost use Rattle.std.proofs.Common.{refl};
ghost use Rattle.std.specs.Prelude.{◌≡◌, ◌<◌, [], None, IfOk, MatchResult, OnErr, length, ⊤};
ghost use Rattle.pt_memory.specs.declared.loose_source.SwapFault.TheVariants as fault;

use crate::MemSource;
use pt_tree::{Block, Kind, Listing, MemoryFault, NamePath, Source, TreeFault};
use thiserror::Error;

/// Why no swap is set.
#[derive(Clone, Copy, Debug, PartialEq, Eq, Error)]
pub enum SwapFault {
    /// No file is at the path.
    #[error("no file is at the path")]
    Absent,
    /// A growth was refused.
    #[error("out of memory")]
    Memory,
}

impl SwapFault {
    ghost use Rattle.pt_memory.specs.LooseSource.{swap_number};

    /// The fault's number: 1 `Absent`, 2 `Memory`.
    pub fn number(&self) -> u8
        ensures { result ≡ swap_number self.now }
    {
        match self {
            SwapFault::Absent => 1,
            SwapFault::Memory => 2,
        }
    }
}

impl From<MemoryFault> for SwapFault {
    ghost from_gives = { λ _ e. e ≡ fault.Memory };

    fn from(_: MemoryFault) -> Self {
        SwapFault::Memory
    }
}

#[derive(Debug, Drop)]
struct Swap {
    left: u64,
    path: NamePath,
    bytes: Vec<u8>,
    ghost below_top: { 0 < length path },
}

/// A tree in memory that may change while it is read, and tells nothing.
#[derive(Debug, Drop)]
pub struct LooseSource {
    source: MemSource,
    swap: Option<Swap>,
}

impl LooseSource {
    ghost use Rattle.pt_memory.specs.LooseSource.{after_swap, loose_state, swap_refusal, ticked};
    ghost use Rattle.pt_memory.specs.MemSource.{source_state};
    ghost use Rattle.pt_tree.specs.Refusal.{Answers};

    /// Takes a tree over as it is: its fuse, its counts, and the open file with its place.
    pub fn of(source: MemSource) -> LooseSource
        ensures source { (loose_state result).source ≡ source_state source }
        ensures swap { (loose_state result).swap ≡ None }
    {
        LooseSource { source, swap: None }
    }

    /// Lets the file at a path hold these bytes once so many more calls of the trait were made,
    /// failed or not: from before the next one on, or at once for 0. An open file is read on from
    /// the same place in the new bytes.
    ///
    /// `Absent` where no file is at the path, tested first; then `Memory`. Refused, an earlier swap
    /// stays; else this one takes its place.
    pub fn swap_after(&mut self, calls: u64, path: &NamePath, bytes: &[u8]) -> Result<(), SwapFault>
        ensures answer { Answers (swap_refusal (loose_state self.old).source.tree path.now)
            SwapFault.Memory result
            (λ _. loose_state self.new ≡ after_swap calls path.now bytes.now
            (loose_state self.old)) }
        ensures err { OnErr result (loose_state self.new ≡ loose_state self.old) }
    {
        if path.is_empty() || self.source.file(path).is_none() {
            return Err(SwapFault::Absent);
        }
        let path = path.copy()?;
        let Ok(bytes) = Vec::from_slice(self.source.alloc(), bytes) else {
            return Err(SwapFault::Memory);
        };
        self.set(calls, path, bytes);
        Ok(())
    }

    // Sets the swap that is still to come, or makes it at once.
    fn set(&mut self, calls: u64, path: NamePath, bytes: Vec<u8>)
        requires { 0 < length path }
        ensures { loose_state self.new ≡ after_swap calls path bytes.items (loose_state self.old) }
    {
        if calls == 0 {
            self.source.replace(&path, bytes);
            self.swap = None;
        } else {
            self.swap = Some(Swap {
                left: calls,
                path,
                bytes,
            });
        }
    }

    // A call is over.
    fn tick(&mut self)
        ensures { loose_state self.new ≡ ticked (loose_state self.old) }
    {
        match self.swap.take() {
            None => {}
            Some(swap) => {
                let Swap { left, path, bytes } = swap;
                if left <= 1 {
                    self.source.replace(&path, bytes);
                } else {
                    self.swap = Some(Swap {
                        left: left - 1,
                        path,
                        bytes,
                    });
                }
            }
        }
    }
}

impl Source for LooseSource {
    ghost use Rattle.std.specs.Prelude.{Option};
    ghost use Rattle.pt_tree.specs.Failing.{ListsAs, LooksAs, OpensAs, ReadsAs};
    ghost use Rattle.pt_tree.specs.Source.{IsListed, IsRead, IsSeen};
    ghost use Rattle.pt_tree.specs.Failures.{IsCounted, IsOneMoreCall};
    ghost use Rattle.pt_memory.specs.MemSource.{KindGives, ListGives, OpenGives, NextGives};
    ghost use Rattle.pt_memory.specs.LooseSource.{Then, loose_called, loose_failures, loose_state};
    ghost use Rattle.pt_memory.specs.LooseSource.{untold};

    ghost told = { λ _. None };

    ghost failing = { λ _. None };

    ghost failed = { loose_failures };

    ghost called = { loose_called };

    ghost keeps = { λ _ _. ⊤ };

    ghost is_kept = { λ _. tt };

    ghost keeps_on = { λ _ _ _ _ _. tt };

    ghost keeps_failing = { λ _ _ _. refl };

    ghost proper = { untold };

    fn failures(&self) -> u64 {
        self.source.failures()
    }

    #[tactic(auto, unfolding(pt_tree::specs::Failing::ListsAs, pt_tree::specs::Source::IsListed))]
    fn list(&mut self, path: &NamePath) -> Result<Listing, TreeFault>
        ensures gives { Then (λ between.
            ListGives (loose_state self.old).source between path.now result) (loose_state self.old)
            (loose_state self.new) }
        ensures listing { IfOk result (λ listing. IsListed None path.now listing) }
        ensures fails { ListsAs None None path.now result }
        ensures failures { IsCounted (loose_failures self.old)
            (loose_failures self.new) result }
        ensures calls { IsOneMoreCall (loose_called self.old) (loose_called self.new) }
    {
        let listing = self.source.list_at(path);
        self.tick();
        listing
    }

    #[tactic(auto, unfolding(pt_tree::specs::Failing::LooksAs))]
    fn kind(&mut self, path: &NamePath) -> Result<Option<Kind>, TreeFault>
        ensures gives { Then (λ between.
            KindGives (loose_state self.old).source between path.now result) (loose_state self.old)
            (loose_state self.new) }
        ensures kind { IfOk result (λ here. IsSeen None path.now here) }
        ensures fails { LooksAs None None path.now result }
        ensures failures { IsCounted (loose_failures self.old)
            (loose_failures self.new) result }
        ensures calls { IsOneMoreCall (loose_called self.old) (loose_called self.new) }
    {
        let here = self.source.look_at(path);
        self.tick();
        here
    }

    #[tactic(auto, unfolding(pt_tree::specs::Failing::OpensAs))]
    fn open(&mut self, path: &NamePath) -> Result<(), TreeFault>
        ensures gives { Then (λ between.
            OpenGives (loose_state self.old).source between path.now result) (loose_state self.old)
            (loose_state self.new) }
        ensures fails { OpensAs None None path.now result }
        ensures failures { IsCounted (loose_failures self.old)
            (loose_failures self.new) result }
        ensures calls { IsOneMoreCall (loose_called self.old) (loose_called self.new) }
    {
        let opened = self.source.open_at(path);
        self.tick();
        opened
    }

    #[tactic(auto, unfolding(pt_tree::specs::Failing::ReadsAs, pt_tree::specs::Source::IsRead))]
    fn next(&mut self, block: &mut Block) -> Result<(), TreeFault>
        ensures gives { Then (λ between.
            NextGives (loose_state self.old).source between block.new.items result)
            (loose_state self.old) (loose_state self.new) }
        ensures block { MatchResult result (λ _. IsRead None block.new.items)
            (λ _. block.new.items ≡ []) }
        ensures fails { ReadsAs None None block.new.items result }
        ensures failures { IsCounted (loose_failures self.old)
            (loose_failures self.new) result }
        ensures calls { IsOneMoreCall (loose_called self.old) (loose_called self.new) }
    {
        let read = self.source.next_of(block);
        self.tick();
        read
    }
}
