//! Why a comparison stops before its end.
ghost use Rattle.std.specs.Prelude.{◌≡◌};
ghost use Rattle.pt_compare.specs.declared.stop.Stop.TheVariants as stop;
ghost use Rattle.pt_plan.specs.RunFaults.{dest_fault, source_fault};
ghost use Rattle.pt_plan.specs.declared.fault.Fault.TheVariants as fault;

use crate::Difference;
use pt_plan::Fault;
use pt_tree::{MemoryFault, TreeFault};

/// Why a comparison stops before its end.
#[derive(Drop)]
pub(crate) enum Stop {
    /// The first difference was found.
    Differs(Difference),
    /// It can't go on.
    Fault(Fault),
}

/// What a fault of the source is for it.
pub(crate) fn of_source(fault: TreeFault) -> Stop
    ensures { result ≡ stop.Fault (source_fault fault) }
{
    Stop::Fault(Fault::of_source(fault))
}

/// What a fault of the root is for it.
pub(crate) fn of_root(fault: TreeFault) -> Stop
    ensures { result ≡ stop.Fault (dest_fault fault) }
{
    Stop::Fault(Fault::of_dest(fault))
}

impl From<MemoryFault> for Stop {
    ghost from_gives = { λ _ e. e ≡ stop.Fault fault.Memory };

    fn from(_: MemoryFault) -> Self {
        Stop::Fault(Fault::Memory)
    }
}
