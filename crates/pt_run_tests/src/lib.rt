//! Tests of runs by the libraries' public calls: the definitions of a run over worked stores, and
//! whole runs over trees in memory: their lines, what they leave, and how they end; and the lines
//! and numbers of a check of a store, of an audit, and of what a root has more. No code of the
//! program stands on this crate.
//!
//! Read `Run` first (lines.rt): a row has the entries of a store as a text, what the job has that
//! isn't as usual, and what comes of the run. Of the worked stores in specs/ the prover computes
//! it.
//!
//! No guarantee of README rests on its definitions.
#![tactic(auto)]

#[cfg(test)]
mod audits;
#[cfg(test)]
mod broken_runs;
#[cfg(test)]
mod check_lines;
#[cfg(test)]
mod check_shares;
#[cfg(test)]
mod expected_roots;
#[cfg(test)]
mod extras;
#[cfg(test)]
mod jobs;
#[cfg(test)]
mod limits;
#[cfg(test)]
mod lines;
#[cfg(test)]
mod shares;
#[cfg(test)]
mod spoiled_stores;
#[cfg(test)]
mod standing_roots;
#[cfg(test)]
mod steps;
#[cfg(test)]
mod whole_runs;
#[cfg(test)]
mod worked_faults;
#[cfg(test)]
mod worked_objects;
#[cfg(test)]
mod worked_stores;
