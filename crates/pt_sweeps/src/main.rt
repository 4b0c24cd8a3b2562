//! Runs over small stores that are made to fail: of three devices in memory each by itself, and of
//! the program's own call over a system in memory. It prints a line for each store and way, that
//! all was well or what wasn't.
//!
//! Read `sweep_all` first (devices.rt): each call of each device fails in turn, and the log at each
//! of its bytes; and a second run is made over what is left.
#![tactic(auto)]

mod devices;
mod system;

fn main(rt: HostRuntime) {
    devices::sweep_all(&rt);
    system::run_all(&rt);
}
