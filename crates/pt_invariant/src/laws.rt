//! Laws on a run in progress. Each is the contract of a function that does nothing.
//!
//! What holds of one (`RunInvariant`), in parts:
//!
//! - held, `HeldAt`: trail, rows, contents, the phase's numbers and what the hasher was fed fit the
//!   phase; the layout is allowed. Always. So before a sidecar is made the hasher was fed the
//!   inventory's text of the object and the rows that are held (`FedAt`).
//! - source, `SourcePart`: where the run stands, which items are still to come, and whose bytes the
//!   rows have. Where the source tells.
//! - destination, `DestPart`: what stood stands; what was made of a root or an object, for objects
//!   that came whole to free places. Where the destination tells.
//! - items, `ItemsPart`: the objects placed are those carried of the items done, and the counts are
//!   those of their lines. Where source and destination tell.
//! - log, `HasTold`, where all three tell: the log has got these lines; `IsQuiet`, where the log
//!   tells: before the pairtree is opened nothing.
//! - end, `FaultStateAt`: of a run that has ended, destination and log are such as a fault may
//!   leave. Where all three tell.
//!
//! The turns are those of the start, of the walk, of the scan of an object, those that make one,
//! and those of placing, which bring it to its place and tell of it and of the end. By group of
//! turns and part, each with its proof in the folder of proofs/ of that part, there are laws such
//! as `starting_keeps_held`, `walking_keeps_source`, `scanning_keeps_dest`, `making_keeps_items`
//! and `placing_decreases_rank` (work_laws.rt).
ghost use Rattle.pt_invariant.specs.InvariantLaws.{InvariantEnables, NewRunHoldsInvariant};
ghost use Rattle.pt_invariant.specs.InvariantLaws.{TurnEndsInvariant, TurnKeepsInvariant};
ghost use Rattle.pt_invariant.specs.BoundLaws.{HaltedIsWithinBound, TurnIsWithinBound};
ghost use Rattle.pt_invariant.specs.DestLaws.{MakingKeepsDest, PlacingKeepsDest, ScanningKeepsDest};
ghost use Rattle.pt_invariant.specs.DestLaws.{StartingKeepsDest, WalkingKeepsDest};
ghost use Rattle.pt_invariant.specs.EndLaws.{InvariantIsWithinBound, EndsWell, EndsWithStates};
ghost use Rattle.pt_invariant.specs.GoodStart.{NothingIsRefused};
ghost use Rattle.pt_invariant.specs.HaltLaws.{HaltsLeave, StopsLeave};
ghost use Rattle.pt_invariant.specs.HeldLaws.{MakingKeepsHeld, PlacingKeepsHeld, ScanningKeepsHeld};
ghost use Rattle.pt_invariant.specs.HeldLaws.{StartingKeepsHeld, WalkingKeepsHeld};
ghost use Rattle.pt_invariant.specs.ItemLaws.{MakingKeepsItems, PlacingKeepsItems};
ghost use Rattle.pt_invariant.specs.ItemLaws.{ScanningKeepsItems, StartingKeepsItems};
ghost use Rattle.pt_invariant.specs.ItemLaws.{WalkingKeepsItems};
ghost use Rattle.pt_invariant.specs.LogLaws.{FailedLogLeavesNoStaging};
ghost use Rattle.pt_invariant.specs.RefusalLaws.{BadTargetIsNone, EarlyLeavesDest, EarlyLeavesLog};
ghost use Rattle.pt_invariant.specs.RefusalLaws.{FindsStaging, FindsTarget, FindsTargetOf};
ghost use Rattle.pt_invariant.specs.RefusalLaws.{RefusesRightly};
ghost use Rattle.pt_invariant.specs.SourceLaws.{MakingKeepsSource, PlacingKeepsSource};
ghost use Rattle.pt_invariant.specs.SourceLaws.{ScanningKeepsSource, StartingKeepsSource};
ghost use Rattle.pt_invariant.specs.SourceLaws.{WalkingKeepsSource};
ghost use Rattle.pt_invariant.specs.StillLaws.{InvariantStandsStill, LeftBehindStandsStill};

/// A new run is in progress, whatever its devices tell.
pub fn new_run_holds_invariant()
    ensures { NewRunHoldsInvariant }
{}

/// A run in progress permits the calls of its next turn.
pub fn invariant_enables()
    ensures { InvariantEnables }
{}

/// A turn that goes on leaves the run in progress, at its next phase.
pub fn turn_keeps_invariant()
    ensures { TurnKeepsInvariant }
{}

/// A turn that halts the run leaves it ended, and what is left in a destination that tells may be
/// kept.
pub fn turn_ends_invariant()
    ensures { TurnEndsInvariant }
{}

/// After the turn that ends a run, where all devices tell, the start was a good one, the
/// destination holds the root with all objects that are carried and is as it was elsewhere, the log
/// has got all lines, and the counts are the end line's.
pub fn ends_well()
    ensures { EndsWell }
{}

/// And the state of the version of each object that is carried is its files, where no two of them
/// whose bytes differ have one digest (OCFL 1.1, "Version Block").
pub fn ends_with_states()
    ensures { EndsWithStates }
{}

/// Between two turns a run holds no more than its source's bound, where the source tells.
pub fn invariant_is_within_bound()
    ensures { InvariantIsWithinBound }
{}

/// So it is after a turn that halts the run.
pub fn halted_is_within_bound()
    ensures { HaltedIsWithinBound }
{}

/// So it is after any turn, whatever it answers.
pub fn turn_is_within_bound()
    ensures { TurnIsWithinBound }
{}

/// From a good start, where no device fails, a turn halts a run for want of memory alone, where
/// source and destination tell.
pub fn nothing_is_refused()
    ensures { NothingIsRefused }
{}

/// Where the source tells, it is refused as no pairtree or for its prefix only where that is so,
/// and never as changed.
pub fn refuses_rightly()
    ensures { RefusesRightly }
{}

/// Where the destination tells, a run halts for what stands at `staging` only where something stood
/// there at the start.
pub fn finds_staging()
    ensures { FindsStaging }
{}

/// The turns of the start keep what holds of a run in progress where the source tells.
pub fn starting_keeps_source()
    ensures { StartingKeepsSource }
{}

/// So do the turns of the walk.
pub fn walking_keeps_source()
    ensures { WalkingKeepsSource }
{}

/// So do the turns of the scan of an object.
pub fn scanning_keeps_source()
    ensures { ScanningKeepsSource }
{}

/// So do the turns that make an object.
pub fn making_keeps_source()
    ensures { MakingKeepsSource }
{}

/// So do the turns of placing.
pub fn placing_keeps_source()
    ensures { PlacingKeepsSource }
{}

/// The turns of the start keep what holds of a run in progress where the destination tells.
pub fn starting_keeps_dest()
    ensures { StartingKeepsDest }
{}

/// So do the turns of the walk.
pub fn walking_keeps_dest()
    ensures { WalkingKeepsDest }
{}

/// So do the turns of the scan of an object.
pub fn scanning_keeps_dest()
    ensures { ScanningKeepsDest }
{}

/// So do the turns that make an object.
pub fn making_keeps_dest()
    ensures { MakingKeepsDest }
{}

/// So do the turns of placing.
pub fn placing_keeps_dest()
    ensures { PlacingKeepsDest }
{}

/// The turns of the start keep what holds of what is held, whatever the devices tell.
pub fn starting_keeps_held()
    ensures { StartingKeepsHeld }
{}

/// So do the turns of the walk.
pub fn walking_keeps_held()
    ensures { WalkingKeepsHeld }
{}

/// So do the turns of the scan of an object.
pub fn scanning_keeps_held()
    ensures { ScanningKeepsHeld }
{}

/// So do the turns that make an object.
pub fn making_keeps_held()
    ensures { MakingKeepsHeld }
{}

/// So do the turns of placing.
pub fn placing_keeps_held()
    ensures { PlacingKeepsHeld }
{}

/// The turns of the start keep what holds of the items that are done, of the counts and of the log,
/// where the devices tell these.
pub fn starting_keeps_items()
    ensures { StartingKeepsItems }
{}

/// So do the turns of the walk.
pub fn walking_keeps_items()
    ensures { WalkingKeepsItems }
{}

/// So do the turns of the scan of an object.
pub fn scanning_keeps_items()
    ensures { ScanningKeepsItems }
{}

/// So do the turns that make an object.
pub fn making_keeps_items()
    ensures { MakingKeepsItems }
{}

/// So do the turns of placing.
pub fn placing_keeps_items()
    ensures { PlacingKeepsItems }
{}

/// Between any two turns, where all devices tell, the destination and the log are such as a fault
/// may leave of the source.
pub fn stops_leave()
    ensures { StopsLeave }
{}

/// So they are after a turn that halts the run.
pub fn halts_leave()
    ensures { HaltsLeave }
{}

/// Where the destination tells, a run halts for it only where nothing stood at `staging` and its
/// root can't be gone on with: it is no folder, or has other files than the layout's, or something
/// is in the way to an object's place.
pub fn finds_target()
    ensures { FindsTarget }
{}

/// Where the source tells too, the way that is barred is that to an object that is carried.
pub fn finds_target_of()
    ensures { FindsTargetOf }
{}

/// After a halt for what the source is, or for what stands at `staging`, a destination that tells
/// is as it was at the start.
pub fn early_leaves_dest()
    ensures { EarlyLeavesDest }
{}

/// So is a log that tells.
pub fn early_leaves_log()
    ensures { EarlyLeavesLog }
{}

/// In whatever a run leaves of a destination that tells, what stood at the start stands with what
/// it held, and what is new stands at `ocfl` or below it, or, if nothing stood at `staging`, there
/// or below it.
pub fn left_behind_stands_still()
    ensures { LeftBehindStandsStill }
{}

/// So it does between any two turns.
pub fn invariant_stands_still()
    ensures { InvariantStandsStill }
{}

/// Over a root for which a run is refused (`finds_target`) no run of the source can end well.
pub fn bad_target_is_none()
    ensures { BadTargetIsNone }
{}

/// Where the log fails at a phase at which lines are told, nothing stands at `staging`, where the
/// destination tells.
pub fn failed_log_leaves_no_staging()
    ensures { FailedLogLeavesNoStaging }
{}
