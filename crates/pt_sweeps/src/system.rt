//! Whole runs and audits over a system in memory, by the program's own calls. They print a line for
//! each: that all is as it should be, or what isn't.

mod audits;
mod beside;
mod case;
mod demo;
mod expected;
mod machine;
mod one_object;
mod rows;
mod texts;

use case::Case;
use rows::{Found, Row, try_row};

const ROWS: &[(&str, Row)] = &[
    ("carried", Row::Carry),
    ("rehearsed before", Row::RehearseBefore),
    ("rehearsed after", Row::RehearseAfter),
    ("stopped and carried again", Row::Stop),
    ("audited both ways, and stopped at each call", Row::Audit),
    (
        "audited by lengths, and stopped at each call",
        Row::QuickAudit,
    ),
];

/// Tries each row over each case.
pub fn run_all(rt: &HostRuntime) {
    tell(rt, &one_object::CASE);
    tell(rt, &demo::CASE);
}

// Tries each row over a case.
fn tell(rt: &HostRuntime, case: &Case) {
    let name = case.name;
    for (what, row) in ROWS {
        let said = match try_row(rt, case, *row) {
            Found::Well => "as it should be",
            Found::Otherwise(why) => why,
            Found::Unmade => "the devices can't be made",
        };
        let _ = println!(rt; "{name}, {what}: {said}");
    }
}
