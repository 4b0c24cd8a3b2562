//! What an audit is asked for.

use crate::CompareBy;
use pt_move::Job;

/// What an audit is asked for: a run's job, and what it compares.
#[derive(Debug, Drop)]
pub struct AuditTask {
    /// How it sees the store, and what a run would make of it.
    pub job: Job,
    /// What of an object's files is compared.
    pub by: CompareBy,
}
