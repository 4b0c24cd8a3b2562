//! What a run is made of: the phases that it goes through, turn by turn, as plain data; and the
//! definitions of what it is to leave and of what each turn does.
//!
//! Read `Phase` first, which says what the next turn does. The definitions stand in specs/: the
//! items of a store with their verdicts (`items`), what is carried (`carried`), the root after it
//! (`after`), the log (`log_of`), the bound on what is held (`bound`), the work (`work`), what a
//! fault may leave (`FaultState`), and one turn line by line (`Turn`). The prover computes worked
//! stores, and turns of them, from these definitions (in pt_run_tests).
//!
//! ```rust
//! skip_line(alloc, &at, Cause::Split)?; // {"as":"skip","at":"ab/c","cause":"split"}
//! end_line(alloc, 4, 0, 4)?; // {"as":"end","done":4,"present":0,"skip":4}
//! ```
//!
//! What it promises:
//!
//! - The lines of a log as texts (`done_line`, `present_line`, `skip_line`, `end_line`): exactly
//!   `line_text` of what they tell. Those of the other logs too are made by `line_with`: of members
//!   in their order (`members_tree`).
//! - Laws (laws.rt): what is carried and told grows item by item (`carried_grows`, `text_grows`,
//!   `after_grows`), and each line is counted once (`each_line_is_counted`).
//! - Each object that is carried stands at its place in the root, path by path, and nothing else
//!   below it (`carried_stand_whole`); the state of its version is its files, where no two of them
//!   whose bytes differ have one digest (`carried_have_their_files`). What stood stands
//!   (`what_stands_stays`).
//! - What any fault leaves of a run that might have ended well is, once `staging` is taken away, a
//!   start from which a run may end well, and that leaves the very destination that one undisturbed
//!   run leaves (`rerun_leaves_the_same`).
//! - Of the shares of a store, each carried over the same root: their logs have together the lines
//!   of the whole's (`shares_tell_the_whole`), and their roots have together what the whole's has
//!   (`shares_leave_the_whole`); where two have something, it stood before, or is a folder
//!   (`shares_meet_in_folders`). So it is of any choices that divide a store's identifiers
//!   (`Divide`).
//!
//! All guarantees of README rest on its definitions.
#![tactic(auto)]

mod fault;
pub mod kinds;
pub mod laws;
pub mod lines;
pub mod members;
pub mod names;
mod object;
mod phase;

pub use fault::Fault;
pub use object::Object;
pub use phase::{Opening, Part, Phase, Position, Stage};
