//! An audit: the objects of a store are held against the storage root that stands. It is made by
//! steps of a survey, which looks at sites and objects as a run does, and makes nothing of them.
//!
//! Read `audit` first (auditing.rt), and then `Survey`, by whose steps it is made:
//!
//! ```rust
//! let task = AuditTask { job, by: CompareBy::Bytes };
//! let counts = audit(alloc, &mut source, &mut root, &mut log, task, &observer)?;
//! ```
//!
//! What it promises, over any store, root and log:
//!
//! - `audit`, where it answers Ok, and the trees of store and root and the log are told: the log
//!   has got just the audit's log (`IsAuditLog`), of each item of the store, in the order of the
//!   walk, what is told of it, and the end line. After a fault it has got a front of that
//!   (`StopsAs`): what it tells is so, and nothing else is told. `audit_objects` is the same but
//!   for the end line. By lengths an object fits just where it stands with some digests of its
//!   files (`IsQuickOf`), and nothing of the root is read beside the store (`LeavesRoot`).
//! - Store and root are the same, with the same trees, and what stood in the log stands. A device
//!   is blamed exactly where it failed, and a store is refused only for what it is (`AuditSays`).
//! - Where the root tells, an audit ends well only if nothing stands at `ocfl`, or a directory with
//!   the three files of this layout (`IsOfLayout`).
//! - It makes no more steps than the limit of turns, and where the store tells no more than a
//!   survey's work (`IsMade`). After each it holds no more of the survey than a run's bound
//!   (`Steps`), and beside it three paths, a block and numbers (`AuditFields`).
//! - `sound_audit_means_all_stand`: where such a log, by bytes, counts no object that is absent or
//!   differs, each object that a run would carry stands whole at its place, and nothing else there.
//!   `audit_after_run_is_sound`: an audit after a run that found no place taken has such a log.
//! - Not proved: of two entries that are more than an object has, that the one is told whose path
//!   has the lower bytes, which is tested.
//!
//! Guarantees of README that rest on its definitions: An audit is exact.
#![tactic(auto, using(crate::proofs::AuditRules::audit_rules))]

mod auditing;
mod compare_by;
mod counts;
mod empty_dest;
pub mod laws;
mod layout;
mod lines;
mod root_reader;
mod survey;
mod task;
mod twin;

pub use auditing::{AuditCompletion, ObjectsAudit, audit, audit_objects};
pub use compare_by::CompareBy;
pub use counts::Counts;
pub use pt_compare::{Comparison, Difference, Why};
pub use survey::{ObjectAtHand, OpenedFile, Survey, SurveyEvent};
pub use task::AuditTask;
pub use twin::{object_stands, proper_site, skip_prefix};
