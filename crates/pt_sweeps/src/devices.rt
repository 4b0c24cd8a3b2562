//! Sweeps over small stores in memory: each call of each device fails in turn, and the log at each
//! of its bytes. They print a line for each store and device: how often it failed, and that all was
//! well or what wasn't.

mod cases;
mod sweep;

use cases::{CASES, Case};
use sweep::{Device, Found, sweep};

// The devices, each with what its places are.
const DEVICES: &[(Device, &str)] = &[
    (Device::Source, "calls of the source"),
    (Device::Dest, "calls of the destination"),
    (Device::Log, "bytes of the log"),
];

/// Sweeps over each case by each device.
pub fn sweep_all(rt: &HostRuntime) {
    for case in CASES {
        for &(device, places) in DEVICES {
            tell(rt, case, device, places);
        }
    }
}

// Sweeps over a case by one device.
fn tell(rt: &HostRuntime, case: &Case, device: Device, places: &str) {
    let name = case.name;
    let _ = match sweep(rt.alloc(), case, device) {
        Found::Well(count) => println!(rt; "{name}: {count} {places}: all well"),
        Found::Wrong(at, why) => println!(rt; "{name}: at {at} of the {places}: {why}"),
    };
}
