//! How far a run, an audit or a check is.
ghost use Rattle.std.specs.Prelude.{◌≡◌, ◌+◌};
ghost use Rattle.pt_messages.specs.Progress.{bounded, line_count};

use pt_audit::Counts;
use pt_move::{Observer, Report};
use std::cell::Cell;

/// What was seen so far: the lines of each kind that were put, how often something was come to, and
/// the bytes that were read.
#[derive(Clone, Copy)]
pub struct Seen {
    /// The lines of objects that were carried, or that an audit found the same.
    pub done: u64,
    /// The lines of objects whose places were taken, or that an audit found otherwise.
    pub present: u64,
    /// The lines of what isn't carried.
    pub skipped: u64,
    /// How often a file was come to, to open it, or a folder, to list it, while that was shown: of
    /// a check each is counted once.
    pub met: u64,
    /// The bytes that were read of files, each time that they were.
    pub bytes: u64,
}

impl Seen {
    /// Nothing yet.
    pub fn nothing() -> Seen
        ensures { result ≡ record { done = 0; present = 0; skipped = 0; met = 0; bytes = 0 } }
    {
        Seen {
            done: 0,
            present: 0,
            skipped: 0,
            met: 0,
            bytes: 0,
        }
    }

    /// The lines of all kinds.
    pub fn lines(&self) -> u64
        ensures { result ≡ line_count self.now }
    {
        self.done
            .saturating_add(self.present)
            .saturating_add(self.skipped)
    }

    /// The same, with as many lines of each kind as a run has put.
    pub fn with_report(self, report: &Report) -> Seen
        ensures { result ≡ record self {
          done = report.now.done;
          present = report.now.present;
          skipped = report.now.skipped;
        } }
    {
        Seen {
            done: report.done,
            present: report.present,
            skipped: report.skipped,
            ..self
        }
    }

    /// The same, with as many as an audit has put: what is absent or differs is present.
    pub fn with_counts(self, counts: &Counts) -> Seen
        ensures { result ≡ record self {
          done = counts.now.same;
          present = bounded (counts.now.absent + counts.now.differs);
          skipped = counts.now.skipped;
        } }
    {
        Seen {
            done: counts.same,
            present: counts.absent.saturating_add(counts.differs),
            skipped: counts.skipped,
            ..self
        }
    }

    /// The same after one more was come to.
    pub fn with_one_met(self) -> Seen
        ensures { result ≡ record self { met = bounded (self.met + 1) } }
    {
        Seen {
            met: self.met.saturating_add(1),
            ..self
        }
    }

    /// The same after so many more bytes were read.
    pub fn with_bytes(self, count: u64) -> Seen
        ensures { result ≡ record self { bytes = bounded (self.bytes + count) } }
    {
        Seen {
            bytes: self.bytes.saturating_add(count),
            ..self
        }
    }
}

/// What was seen so far of a run, an audit or a check, which tells of it as it goes on.
#[derive(Drop)]
pub struct Tally {
    seen: Cell<Seen>,
}

impl Tally {
    /// Nothing yet.
    pub fn new() -> Tally {
        Tally {
            seen: Cell::new(Seen::nothing()),
        }
    }

    /// What was seen so far. No clause can say what a cell holds.
    pub fn seen(&self) -> Seen {
        self.seen.get()
    }

    /// One more was come to.
    pub(crate) fn add_met(&self) {
        self.seen.set(self.seen().with_one_met());
    }

    /// So many more bytes were read.
    pub fn add_bytes(&self, count: u64) {
        self.seen.set(self.seen().with_bytes(count));
    }
}

// A run has put so many lines of each kind.
impl Observer<Report> for Tally {
    fn observe(&self, report: Report) {
        self.seen.set(self.seen().with_report(&report));
    }
}

// And so has an audit.
impl Observer<Counts> for Tally {
    fn observe(&self, counts: Counts) {
        self.seen.set(self.seen().with_counts(&counts));
    }
}
