//! What a run in progress is, that each turn keeps it so, and what follows from it; how many turns
//! it has still to make. No code but laws.
//!
//! Read `RunInvariant` first (specs/RunInvariant.antt), and then the law `turn_keeps_invariant`.
//! That a run is in progress means: there is a past such that each part holds where those devices
//! tell of which it speaks. The parts stand at the head of laws.rt.
//!
//! What it promises:
//!
//! - `new_run_holds_invariant`: a run that is to begin is in progress, whatever stands there.
//!   `invariant_enables`: it permits the calls of its next turn. `turn_keeps_invariant`: a turn
//!   that goes on leaves it in progress, with what is behind it then (`history_after`).
//!   `turn_ends_invariant`: one that halts it leaves it ended, and what is left in a destination
//!   that tells may be kept (`DestFaultStateOfRun`).
//! - `ends_well`, `ends_with_states`: what the turn that ends a run leaves. `stops_leave`,
//!   `halts_leave`: between any two turns, and after one that halts, destination and log are such
//!   as a fault may leave. `invariant_stands_still`: what stood stands.
//! - `refuses_rightly`, `finds_staging`, `finds_target`: a run is refused only for what source and
//!   destination are. `nothing_is_refused`: over a good start, where no device failed, a turn halts
//!   a run for want of memory alone.
//! - `invariant_is_within_bound`: no more is held than the source's bound, where the source tells.
//! - `turn_keeps_within_work`: where source and destination tell, the turns made and those that are
//!   left at most (`rank`) are together within the work (`InvariantWithinWork`), as each turn
//!   lowers what is left.
//!
//! Guarantees of README that rest on its definitions: Complete, Readable as OCFL, Nothing is lost,
//! No half objects, Run it again, The log is true, It ends, and stays small, An audit is exact.
#![tactic(auto)]

pub mod laws;
pub mod work_laws;
