// The two faults that calls all over the workspace share.
ghost use Rattle.std.specs.Prelude.{◌≡◌};
ghost use Rattle.pt_tree.specs.declared.faults.MemoryFault.TheVariants as memory;
ghost use Rattle.pt_tree.specs.declared.faults.TreeFault.TheVariants as tree;
ghost use Rattle.pt_tree.specs.Faults.{memory_number, tree_number};

use std::alloc::{AllocError, AllocFailed};
use thiserror::Error;

/// The fault of a call that refuses nothing but want of memory.
#[derive(Clone, Copy, Debug, PartialEq, Eq, Error)]
pub enum MemoryFault {
    /// A growth was refused.
    #[error("out of memory")]
    Memory,
}

impl MemoryFault {
    /// The fault's number: 1.
    pub fn number(&self) -> u8
        ensures { result ≡ memory_number self.now }
    {
        match self {
            MemoryFault::Memory => 1,
        }
    }
}

impl From<AllocError> for MemoryFault {
    ghost from_gives = { λ _ e. e ≡ memory.Memory };

    fn from(_: AllocError) -> Self {
        MemoryFault::Memory
    }
}

impl<T: Drop> From<AllocFailed<T>> for MemoryFault {
    ghost from_gives = { λ _ e. e ≡ memory.Memory };

    fn from(_: AllocFailed<T>) -> Self {
        MemoryFault::Memory
    }
}

/// What a call of a source, a destination or a log may answer in place of its work.
#[derive(Clone, Copy, Debug, PartialEq, Eq, Error)]
pub enum TreeFault {
    /// The device failed, and its count of failures rose or stood at its greatest value.
    #[error("the device failed")]
    Device,
    /// A growth was refused.
    #[error("out of memory")]
    Memory,
}

impl TreeFault {
    /// The fault's number: 1 `Device`, 2 `Memory`.
    pub fn number(&self) -> u8
        ensures { result ≡ tree_number self.now }
    {
        match self {
            TreeFault::Device => 1,
            TreeFault::Memory => 2,
        }
    }
}

impl From<MemoryFault> for TreeFault {
    ghost from_gives = { λ _ e. e ≡ tree.Memory };

    fn from(_: MemoryFault) -> Self {
        TreeFault::Memory
    }
}

impl From<AllocError> for TreeFault {
    ghost from_gives = { λ _ e. e ≡ tree.Memory };

    fn from(_: AllocError) -> Self {
        TreeFault::Memory
    }
}
