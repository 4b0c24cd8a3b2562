//! Tests of the libraries below a run by their public calls: names and paths, trees and logs in
//! memory, sites and trails, identifiers and places, digests, inventories and the other texts of an
//! object. No code of the program stands on this crate.
//!
//! Read `all_hold` first, and then the rows of identifiers.rt: a test is a table, whose rows are of
//! an enum that says what each means. A row holds or doesn't (`Holds`), and what fails is told by
//! the table and the number of the row.
#![tactic(auto)]

#[cfg(test)]
mod divisions;
#[cfg(test)]
mod identification;
#[cfg(test)]
mod identifier_lists;
#[cfg(test)]
mod identifiers;
#[cfg(test)]
mod inventories;
#[cfg(test)]
mod logs;
#[cfg(test)]
mod loose_sources;
#[cfg(test)]
mod memory_trees;
#[cfg(test)]
mod name_lengths;
#[cfg(test)]
mod names;
#[cfg(test)]
mod objects;
#[cfg(test)]
mod rows_and_contents;
#[cfg(test)]
mod sidecars;
#[cfg(test)]
mod sites;
#[cfg(test)]
mod spoiled_sources;
#[cfg(test)]
mod tables;
#[cfg(test)]
mod trails;
#[cfg(test)]
mod walk_laws;
#[cfg(test)]
mod wrapped_sources;
