ghost use Rattle.std.specs.Prelude.{◌≡◌};
ghost use Rattle.pt_audit.specs.Counting.{counts_with, no_counts};

use crate::Comparison;

/// How many lines of each kind an audit has.
#[derive(Clone, Copy, Debug, PartialEq, Eq)]
pub struct Counts {
    /// The objects that stand as a run makes them.
    pub same: u64,
    /// Those at whose place nothing stands.
    pub absent: u64,
    /// Those that differ there.
    pub differs: u64,
    /// The sites and shorties that were passed over.
    pub skipped: u64,
}

impl Counts {
    /// Of no line yet.
    pub fn none() -> Counts
        ensures { result ≡ no_counts }
    {
        Counts {
            same: 0,
            absent: 0,
            differs: 0,
            skipped: 0,
        }
    }

    /// With one object more, by what was found.
    pub fn with(self, finding: &Comparison) -> Counts
        ensures { result ≡ counts_with finding.now self }
    {
        match finding {
            Comparison::Same => Counts {
                same: self.same.saturating_add(1),
                ..self
            },
            Comparison::Absent => Counts {
                absent: self.absent.saturating_add(1),
                ..self
            },
            Comparison::Differs(_) => Counts {
                differs: self.differs.saturating_add(1),
                ..self
            },
        }
    }

    /// With so many sites and shorties passed over.
    pub fn with_skipped(self, skipped: u64) -> Counts
        ensures { result ≡ record self { skipped = skipped } }
    {
        Counts { skipped, ..self }
    }
}
