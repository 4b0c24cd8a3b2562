//! The turns that look at a storage root or make one, those that make an object in `staging` and
//! bring it to its place, and those that tell of it and of the end.
//!
//! Read `make` first, which makes a part of an object, then `copy`, and `make_tuple` and `rename`,
//! which bring it to its place. Each is called at its phase by `turn_at` of pt_move, and gives the
//! next:
//!
//! ```rust
//! Stage::Make(part) => making::make(state, object, part, out),
//! ```
//!
//! What it promises:
//!
//! - Each function makes its turn, as those of pt_scan make theirs (`TakesTurn` of pt_state).
//! - An inventory is written piece by piece. The turn is that of one file, made with its whole
//!   text: where a piece can't be written, or memory for a further one is wanting, it leaves a
//!   front of the text, and where it goes on the hasher was fed the text that was written.
//!
//! No guarantee of README rests on its definitions.
#![tactic(auto, using(crate::proofs::MakeRules::make_rules))]

mod contents;
pub mod copying;
mod inventories;
pub mod making;
pub mod placing;
pub mod root;
pub mod telling;

pub use contents::ObjectContent;
