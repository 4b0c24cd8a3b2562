//! What standard error is told of a run, an audit or a check beside how it ended: how far it is,
//! why a fault came, and what is doubtful.
//!
//! Read `Watch` first, and then `tell` of reason.rt. A path or a text from outside is shown by
//! `escape`:
//!
//! ```rust
//! escape(alloc, "two\nlines")?; // two\u{a}lines
//! ```
//!
//! What it promises:
//!
//! - `Watch` is told of each call of a source (pt_tree, `Watched`), and can't touch it; so what is
//!   proved of a run holds of a watched one. What it shows is a text of what was seen
//!   (`progress_text`, `over_text`, `summary_text`); when, and what was seen, has no contract.
//! - `escape` shows a text so (`escaped`). `of_fault` explains a fault by this path and reason
//!   (`IsOfFault`).
//! - `line_of` gives the line of a fault, with its number and its own text (`fault_line`).
//! - `Watch` and `CountedLog` have the fields that Fields.antt lists, and no other: nothing that
//!   grows with a run. What `CountedLog` counts is just the lines put since (`CountsPieces`).
//! - `Reads` is what can be read of files beside a run: the end of a log, a list of identifiers,
//!   and a store's prefix. Its calls change nothing. `lines_expected` asks for the end of the log
//!   that is named, if one is (`AsksEnd`): how long it is, and then for its last bytes. It gives
//!   what the end line there counts (`CountsEnd`), which is shown only.
//! - `Event` is the record of a run, an audit or a check that `--event` asks for, as a text; who
//!   calls it writes that. Its members are those that were put (`BeginsAs`, `PutsFolder`,
//!   `EndsSo`).
//!
//! Guarantees of README that rest on its definitions: An audit is exact.
#![tactic(auto)]

mod counted;
mod event;
mod expected;
mod fault_lines;
mod line;
mod members;
mod numbers;
pub mod prefix;
mod progress;
mod reads;
pub mod reason;
mod shown;
mod tally;
mod terminal;
mod watch;

pub use counted::{AuditTotals, CheckTotals, CountedLog, LineCounts, RunTotals, Totals};
pub use event::{Event, Outcome, VERSION};
pub use expected::{entries_expected, lines_expected};
pub use members::Members;
pub use reads::{Reads, ReadsFiles};
pub use reason::{Explanation, FaultReason, LastCalls};
pub use shown::escape;
pub use tally::{Seen, Tally};
pub use terminal::Terminals;
pub use watch::{Progress, Watch, Watching, Words};
