// Why a run ends before its end.
ghost use Rattle.std.specs.Prelude.{◌≡◌};
ghost use Rattle.pt_plan.specs.RunFaults.{dest_fault, fault_number, log_fault, source_fault};
ghost use Rattle.pt_plan.specs.declared.fault.Fault.TheVariants as fault;

use pt_tree::{MemoryFault, TreeFault};
use std::alloc::{AllocError, AllocFailed};
use thiserror::Error;

/// Why a run ended before its end. Each ends it: every later step answers `Ended`. A turn never
/// answers `Turns` or `Ended`: these two are the run's own.
#[derive(Clone, Copy, Debug, PartialEq, Eq, Error)]
pub enum Fault {
    /// A call of the source failed.
    #[error("cannot read the source")]
    Source,
    /// A call of the destination failed.
    #[error("cannot write the destination")]
    Dest,
    /// A call of the log failed.
    #[error("cannot write the output")]
    Log,
    /// A growth was refused.
    #[error("out of memory")]
    Memory,
    /// The source's top holds no file `pairtree_version0_1` or no directory `pairtree_root`.
    #[error("not a Pairtree 0.1 store")]
    NotPairtree,
    /// `pairtree_prefix` isn't a file of at most 1,024 bytes that is UTF-8 without the line ends at
    /// its end.
    #[error("the prefix file is not a text of at most 1024 bytes")]
    Prefix,
    /// Something named `staging` stands in the destination.
    #[error("a staging directory is left in the destination")]
    StagingLeft,
    /// What is named `ocfl` isn't a storage root of this program and this layout, or something that
    /// isn't a directory has the name of a tuple directory on an object's way.
    #[error("the ocfl directory of the destination cannot be used")]
    Target,
    /// A file of the source read otherwise the second time.
    #[error("a source file changed during the run")]
    Changed,
    /// The limit of turns was made, and the run isn't finished.
    #[error("too many turns")]
    Turns,
    /// The run has ended already.
    #[error("the run has ended")]
    Ended,
}

impl Fault {
    /// The fault's number: 1 `Source`, 2 `Dest`, 3 `Log`, 4 `Memory`, 5 `NotPairtree`, 6 `Prefix`,
    /// 7 `StagingLeft`, 8 `Target`, 9 `Changed`, 10 `Turns`, 11 `Ended`.
    pub fn number(&self) -> u8
        ensures { result ≡ fault_number self.now }
    {
        match self {
            Fault::Source => 1,
            Fault::Dest => 2,
            Fault::Log => 3,
            Fault::Memory => 4,
            Fault::NotPairtree => 5,
            Fault::Prefix => 6,
            Fault::StagingLeft => 7,
            Fault::Target => 8,
            Fault::Changed => 9,
            Fault::Turns => 10,
            Fault::Ended => 11,
        }
    }

    /// What a fault of the source is for the run.
    pub fn of_source(fault: TreeFault) -> Fault
        ensures { result ≡ source_fault fault }
    {
        match fault {
            TreeFault::Device => Fault::Source,
            TreeFault::Memory => Fault::Memory,
        }
    }

    /// What a fault of the destination is for the run.
    pub fn of_dest(fault: TreeFault) -> Fault
        ensures { result ≡ dest_fault fault }
    {
        match fault {
            TreeFault::Device => Fault::Dest,
            TreeFault::Memory => Fault::Memory,
        }
    }

    /// What a fault of the log is for the run.
    pub fn of_log(fault: TreeFault) -> Fault
        ensures { result ≡ log_fault fault }
    {
        match fault {
            TreeFault::Device => Fault::Log,
            TreeFault::Memory => Fault::Memory,
        }
    }
}

impl From<MemoryFault> for Fault {
    ghost from_gives = { λ _ e. e ≡ fault.Memory };

    fn from(_: MemoryFault) -> Self {
        Fault::Memory
    }
}

impl From<AllocError> for Fault {
    ghost from_gives = { λ _ e. e ≡ fault.Memory };

    fn from(_: AllocError) -> Self {
        Fault::Memory
    }
}

impl<T: Drop> From<AllocFailed<T>> for Fault {
    ghost from_gives = { λ _ e. e ≡ fault.Memory };

    fn from(_: AllocFailed<T>) -> Self {
        Fault::Memory
    }
}
