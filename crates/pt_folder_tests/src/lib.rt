//! Tests of folders by their public calls: folders of the disk, and of systems in memory that fail,
//! count or keep the laws; what is put onto the disk, rehearsals, and whether a run may begin
//! between two folders. No code of the program stands on this crate.
//!
//! Read on_disk.rt first, which makes entries on the disk, calls the devices, and looks at what
//! they left; then memory_system.rt, a table of steps, each with what the system in memory answers.
#![tactic(auto)]

#[cfg(test)]
mod counted_steps;
#[cfg(test)]
mod counted_system;
#[cfg(test)]
mod failing_calls;
#[cfg(test)]
mod failing_system;
#[cfg(test)]
mod guard;
#[cfg(test)]
mod long_paths;
#[cfg(test)]
mod memory_system;
#[cfg(test)]
mod on_disk;
#[cfg(test)]
mod rehearsals;
#[cfg(test)]
mod steps;
#[cfg(test)]
mod syncing;
