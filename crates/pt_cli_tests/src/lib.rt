//! Tests of the command by its public calls: how its words are read or refused, and what `names`
//! writes, also of many lines. No code of the program stands on this crate.
//!
//! Read `Reading` first (words.rt): words of a command line stand in a row with what they are read
//! as, a command, a refusal or a text of the parser. Those of each command have a file of their
//! own.
#![tactic(auto)]

#[cfg(test)]
mod audit_words;
#[cfg(test)]
mod check_words;
#[cfg(test)]
mod help;
#[cfg(test)]
mod lists;
#[cfg(test)]
mod migrate_words;
#[cfg(test)]
mod names;
#[cfg(test)]
mod words;
