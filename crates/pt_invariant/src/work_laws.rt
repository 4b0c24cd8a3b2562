//! Laws on the turns that a run makes. Each is the contract of a function that does nothing.
//!
//! Where source and destination tell, the turns made and those that are left at most (`rank`) are
//! together within the work (`InvariantWithinWork`, which implies `RunInvariant`:
//! `within_work_holds_invariant`), since each turn lowers what is left (`new_run_is_within_work`,
//! `turn_keeps_within_work`, `turn_ends_within_work`, `stops_within_work`). So the turns made are
//! within the work, and before the end one is left (`turns_are_within_work`, `turn_is_left`).
ghost use Rattle.pt_invariant.specs.WorkLaws.{MakingDecreasesRank, NewRunIsWithinWork};
ghost use Rattle.pt_invariant.specs.WorkLaws.{PlacingDecreasesRank, ScanningDecreasesRank};
ghost use Rattle.pt_invariant.specs.WorkLaws.{StartingDecreasesRank, StopsWithinWork};
ghost use Rattle.pt_invariant.specs.WorkLaws.{TurnEndsWithinWork, TurnIsLeft};
ghost use Rattle.pt_invariant.specs.WorkLaws.{TurnKeepsWithinWork, TurnsAreWithinWork};
ghost use Rattle.pt_invariant.specs.WorkLaws.{WalkingDecreasesRank, WithinWorkHoldsInvariant};

/// A new run is in progress within its work, whatever its devices tell.
pub fn new_run_is_within_work()
    ensures { NewRunIsWithinWork }
{}

/// What is in progress within its work is in progress.
pub fn within_work_holds_invariant()
    ensures { WithinWorkHoldsInvariant }
{}

/// A turn that goes on leaves the run in progress within its work, at its next phase.
pub fn turn_keeps_within_work()
    ensures { TurnKeepsWithinWork }
{}

/// Before the end of a run a turn is left of its work, where source and destination tell.
pub fn turn_is_left()
    ensures { TurnIsLeft }
{}

/// After any turn, whatever it answers, no more turns were made than the work, where source and
/// destination told.
pub fn turns_are_within_work()
    ensures { TurnsAreWithinWork }
{}

/// A turn that halts the run leaves it ended, within its work.
pub fn turn_ends_within_work()
    ensures { TurnEndsWithinWork }
{}

/// And so is a run that is ended without a turn, as at its limit of turns.
pub fn stops_within_work()
    ensures { StopsWithinWork }
{}

/// The turns of the start lower what is left.
pub fn starting_decreases_rank()
    ensures { StartingDecreasesRank }
{}

/// So do the turns of the walk.
pub fn walking_decreases_rank()
    ensures { WalkingDecreasesRank }
{}

/// So do the turns of the scan of an object.
pub fn scanning_decreases_rank()
    ensures { ScanningDecreasesRank }
{}

/// So do the turns that make an object.
pub fn making_decreases_rank()
    ensures { MakingDecreasesRank }
{}

/// So do the turns that bring an object to its place, and those that tell of it and of the end.
pub fn placing_decreases_rank()
    ensures { PlacingDecreasesRank }
{}
