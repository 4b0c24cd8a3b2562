//! Tests of what an audit by lengths needs, by its public calls: a folder in memory that is seen by
//! lengths, and what an inventory claims. No code of the program stands on this crate.
//!
//! Read `Case` first (claims.rt and by_lengths.rt): a row has a state of an inventory, and what it
//! claims; or a path, and what is read there.
//!
//! No guarantee of README rests on its definitions.
#![tactic(auto)]

#[cfg(test)]
mod by_lengths;
#[cfg(test)]
mod claims;
